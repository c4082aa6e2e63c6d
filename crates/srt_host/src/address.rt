//! Socket addresses of the configuration.

ghost use Rattle.std.specs.Prelude.{◌≡◌};
ghost use Rattle.srt_host.specs.Addresses.{IsAddressOf, served_port};

use srt_config::BindAddress;
use srt_types::is_mapped;
use std::net::{Ipv4Addr, Ipv6Addr, SocketAddr, SocketAddrV4, SocketAddrV6};

/// Returns the socket address that a configuration names: of IPv4 if its 16 bytes are `::ffff:a.b.c.d`, else of IPv6,
/// without a flow label or a zone. Every socket that the program binds has one of these.
pub fn socket_address(address: BindAddress) -> SocketAddr
    ensures { IsAddressOf address result }
{
    let ip = address.ip;
    if is_mapped(&ip) {
        let ip = Ipv4Addr::new(ip[12], ip[13], ip[14], ip[15]);
        SocketAddr::V4(SocketAddrV4::new(ip, address.port))
    } else {
        SocketAddr::V6(SocketAddrV6::new(Ipv6Addr::from_octets(ip), address.port, 0, 0))
    }
}

/// Returns the address of a socket that was bound at this one of the configuration: with the port that the system chose, if that is
/// known.
pub fn served_at(bind: BindAddress, bound: Option<SocketAddr>) -> BindAddress
    ensures ip { result.ip ≡ bind.ip }
    ensures port { result.port ≡ served_port bind.port bound }
{
    let ip = bind.ip;
    let port = match bound {
        Some(address) => address.port(),
        None => bind.port,
    };
    BindAddress { ip, port }
}
