//! A refused conclusion, as it is reported to a watcher.

use arrayvec::ArrayVec;
use srt_types::product_limits::MAX_NAME;
use srt_types::{NotAdmitted, Peer};

/// A conclusion that was refused.
#[derive(Drop)]
pub struct Refusal {
    /// The index of the route that refused it; `None` if the lobby did.
    pub route: Option<usize>,
    /// The caller.
    pub peer: Peer,
    /// Why it was refused: the handshake type of the answer, 1000 or more (section 4.3, table 7).
    pub code: u32,
    /// If the lobby refused it, the name in its Stream ID, cut to 64 bytes. Empty if the Stream ID has none, and if a
    /// route refused it. Any bytes of UTF-8 are possible.
    pub name: ArrayVec<u8, MAX_NAME>,
    /// If the lobby refused it with 1002, the reason.
    pub cause: Option<NotAdmitted>,
}
