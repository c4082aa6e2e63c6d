//! The gateway's socket, as the machine has it.

use std::net::SocketAddr;
use std::time::Instant;

/// What a run knows of the gateway's socket.
#[derive(Clone, Copy)]
pub struct ServedSocket {
    /// The moment 0 of its datagrams.
    pub start: Option<Instant>,
    /// The address that it got; `None` if that isn't known.
    pub address: Option<SocketAddr>,
    /// The bytes that the kernel holds for datagrams that wait at it; `None` if that isn't known.
    pub receive_buffer: Option<u64>,
}
