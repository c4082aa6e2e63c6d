//! The results of the hub's calls.

use srt_lobby::{Cause, LOBBY_ANSWER};

/// The result of an arrival.
#[derive(Clone, Copy, Debug, PartialEq, Eq)]
pub enum Arrived {
    /// The lobby answers with this datagram, to be sent to the peer. No route is changed.
    Answer([u8; LOBBY_ANSWER]),
    /// It is now the last item in the inbox of the route with this index.
    Accepted(usize),
    /// The inbox of the route with this index was full, and the datagram is dropped.
    Full(usize),
    /// The lobby dropped it, for this cause.
    Dropped(Cause),
}

/// The result of a tick.
#[derive(Clone, Copy, Debug, PartialEq, Eq)]
pub enum Ticked {
    /// It is now the last item in the inbox.
    Accepted,
    /// The inbox was full, and the tick is dropped.
    Full,
}

/// The result of closing a route.
#[derive(Clone, Copy, Debug, PartialEq, Eq)]
pub enum Closing {
    /// The route was already hidden. Nothing changed.
    Closed,
    /// The route's inbox was full. Nothing changed: the route is still visible.
    Full,
    /// The last item in the inbox now ends the route's sessions, and the route is hidden from now on.
    Accepted,
}

/// The copy of a datagram's body couldn't be allocated. Nothing changed.
#[derive(Clone, Copy, Debug, PartialEq, Eq)]
pub struct OutOfMemory;
