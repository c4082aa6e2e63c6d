//! Loss lists: the packets that a receiver reports as lost (draft-sharabayko-srt-01, section 3.2.5 and appendix A).
//!
//! It reads and writes the content of a NAK, and knows no buffers. The packet around it is in `srt_packet`, the missing
//! packets are in `srt_recvbuf`, and retransmission is in `srt_sendbuf`. It doesn't allocate.
//!
//! Reading: [`read`] in `reading.rt` checks the bytes once and returns a [`LossRef`], or the first [`LossFault`]. Then
//! `LossRef::asks` tests one number, and `LossRef::ranges` returns a [`Ranges`], whose `next_range` yields one range
//! after another. [`part_in`] in `window.rt` intersects a range with a window of numbers.
//!
//! Writing: [`write`](crate::write) in `writing.rt` encodes at most 32 runs as words. `circle.rt` has the arithmetic
//! modulo 2^31. `specs/Spelling.antt` defines which bytes encode which loss list, `specs/Reading.antt` defines it as a
//! function, and `specs/Text.antt` defines what is written.
#![tactic(auto)]

mod circle;
pub mod laws;
mod reading;
mod window;
mod writing;

pub use reading::{LossFault, LossRef, Ranges, read};
pub use window::part_in;
pub use writing::write;

#[cfg(test)]
mod tests;
