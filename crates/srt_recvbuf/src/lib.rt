//! The receiver buffer of a publisher's session (draft-sharabayko-srt-01, sections 4.5, 4.6 and 4.8).
//!
//! It stores the packets of one stream that are received and not yet delivered, in a window of 32 to 8192 sequence
//! numbers. It has no clock and sends nothing. `srt_pub` defines when ACKs and NAKs are due and encodes them;
//! `srt_timing` computes a packet's due time; `srt_ring` stores the payload bytes.
//!
//! Types: [`RecvBuf`], the buffer; [`Put`], the result of storing one packet.
//!
//! Calls: `RecvBuf::open` once; `start` for each session; `put` for each data packet and `dropped` for each drop
//! request. `next_due` borrows the payload that is to be delivered next, and `note_delivered` removes it (also if no
//! subscriber needs the payload); repeat both until `next_due` returns None. At any time, `ack_point`, `available`,
//! `has_gaps`, `runs` and `top` return the fields of an ACK or a NAK.
//!
//! Files: `buffer.rt` has the rules for reception and drops, and the acknowledgement point; `delivery.rt` what is
//! delivered and which gaps are given up for it; `nak_runs.rt` the runs of missing numbers that a NAK reports.
//! `window.rt` is the ring of packet states that all use, `laws.rt` states facts about the definitions.
//! `specs/Receiving.antt` defines all results from the list of arrivals, and `specs/Stands.antt` defines how the
//! fields represent them.
#![tactic(auto)]

mod buffer;
mod delivery;
pub mod laws;
mod nak_runs;
mod window;

pub use buffer::{Put, RecvBuf};

#[cfg(test)]
mod tests;
