//! A UDP socket over IPv6, which has callers over IPv4 too at the address `::`.

ghost use Rattle.std.specs.Prelude.{◌≡◌, ◌++◌, OnOk, OnErr};
ghost use Rattle.std.specs.declared.net.socket_addr.SocketAddr.TheVariants.{V6};
ghost use Rattle.std.specs.Net.Addr.{ipv6_octets};
ghost use Rattle.std.specs.Net.Socket.{v6_ip, v6_port};
ghost use Rattle.srt_poller.specs.Addresses.{ipv6_name};
ghost use Rattle.srt_poller.specs.SystemCalls.{notes_of, binding_notes, IsRefusedBinding};

use crate::sockets::called::{Socket, SystemRefusal};
use crate::sockets::system::SystemCalls;
use libc::net;
use std::net::SocketAddrV6;

/// Returns the bytes of C's `sockaddr_in6` with this address and port, and without a flow label or a zone (ipv6(7)).
fn name_of(addr: SocketAddrV6) -> [u8; 128]
    ensures { result ≡ ipv6_name (v6_port addr) (ipv6_octets (v6_ip addr)) }
{
    let mut name = [0u8; 128];
    name[..2].copy_from_slice(&(net::AF_INET6 as u16).to_ne_bytes());
    name[2..4].copy_from_slice(&addr.port().to_be_bytes());
    name[8..24].copy_from_slice(&addr.ip().octets());
    name
}

/// Binds a UDP socket over IPv6 at this address, without a zone. At `::` it also has callers over IPv4, whatever the
/// system's default is.
pub(super) fn bind(calls: &mut SystemCalls, addr: SocketAddrV6) -> Result<Socket, SystemRefusal>
    ensures bound { OnOk result (notes_of calls.new ≡ notes_of calls.old ++ binding_notes (V6 addr)) }
    ensures refused { OnErr result (IsRefusedBinding (V6 addr) (notes_of calls.old) (notes_of calls.new)) }
{
    let socket = calls.open_ipv6()?;
    // It can't be done once the socket is bound.
    calls.let_ipv4_in(&socket)?;
    calls.bind_at(&socket, &name_of(addr))?;
    Ok(socket)
}
