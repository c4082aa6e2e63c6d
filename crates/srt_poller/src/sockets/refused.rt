//! A read that fails at a socket.

use super::{MioSource, peer_at};
use crate::devices::{Read, Sent, Source, Wire};
use crate::scripts::ClockScript;
use mio::net::UdpSocket;
use srt_types::protocol_limits::READ_ROOM;
use std::net::{Ipv4Addr, Net, SocketAddr, SocketAddrV4};
use std::process::Abort;
use std::test::Fail;

fn loopback() -> Ipv4Addr {
    Ipv4Addr::new(127, 0, 0, 1)
}

/// A port at which nobody listens any more.
fn free_port<N: Net>(net: &N) -> Result<u16, Fail> {
    let socket = UdpSocket::bind(net, SocketAddr::V4(SocketAddrV4::new(loopback(), 0)))?;
    Ok(socket.local_addr()?.port())
}

/// The system tells a connected socket, and no other one, that its peer's port is unreachable: its next read fails.
#[test]
fn a_read_that_the_system_fails_is_not_an_empty_one(rt: HostRuntime) -> Result<(), Fail> {
    let clock = ClockScript::new(Vec::new(rt.alloc()));
    let local = SocketAddr::V4(SocketAddrV4::new(loopback(), 0));
    let Ok((mut source, mut wire)) = MioSource::open(&rt, rt.alloc(), local, clock) else {
        return Err(Fail::from("the socket is bound"));
    };
    let port = free_port(&rt)?;
    source
        .shared
        .socket
        .connect(SocketAddr::V4(SocketAddrV4::new(loopback(), port)))?;
    let mut buffer = [0u8; READ_ROOM];
    assert_eq!(&rt; source.next(&mut buffer), Read::Empty);
    assert_eq!(&rt; source.failures(), 0);
    assert_eq!(&rt; wire.send(peer_at(loopback(), port), &[7]), Sent::Taken);
    assert_eq!(&rt; source.next(&mut buffer), Read::Failed);
    assert_eq!(&rt; source.failures(), 1);
    assert_eq!(&rt; source.next(&mut buffer), Read::Empty);
    Ok(())
}
