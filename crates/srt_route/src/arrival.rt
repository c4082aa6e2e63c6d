//! Arrival time and sender of a datagram, and of a packet.

use srt_types::Peer;

/// When a datagram arrived at a route, and from whom.
#[derive(Clone, Copy)]
pub struct Receipt {
    /// The route's clock, in microseconds: below 2^62.
    pub clock: u64,
    /// The sender's address.
    pub peer: Peer,
}

/// The arrival of a packet at a route.
#[derive(Clone, Copy)]
pub struct Arrival {
    /// The route's clock, in microseconds: below 2^62.
    pub clock: u64,
    /// The sender's address.
    pub peer: Peer,
    /// The packet's timestamp (section 3), in microseconds, modulo 2^32.
    pub stamp: u32,
}
