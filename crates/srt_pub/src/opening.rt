//! The parameters of a session's opening.

use srt_types::{Callers, Mode, Seq31, Stamp32};

/// The parameters of a session: the time of its opening, the fields of the caller's conclusion, and the terms that the
/// handshake agreed.
#[derive(Clone, Copy, Debug)]
pub struct Opening {
    /// Time of the opening, in microseconds of the route's clock.
    pub now: u64,
    /// Timestamp of the caller's conclusion, in microseconds, from which packet timestamps are counted.
    pub stamp: Stamp32,
    /// Initial sequence number of the caller's conclusion.
    pub initial: Seq31,
    /// The caller's socket ID, from its conclusion: the destination of all packets that are sent.
    pub caller: u32,
    /// Live or buffer mode.
    pub mode: Mode,
    /// The agreed receiver's delay, in microseconds (section 4.4). Used in live mode only.
    pub delay: u32,
    /// Which rules the callers follow: for the first sample of the round-trip time, and for the rates in a Full ACK.
    pub callers: Callers,
}
