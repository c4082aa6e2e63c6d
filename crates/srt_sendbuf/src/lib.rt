//! The sender buffer of a subscriber's session (draft-sharabayko-srt-01, sections 3.2.4, 3.2.5, 3.2.9, 4.6 and 4.8).
//!
//! It stores the payloads of one stream that are queued and neither acknowledged nor expired, in 32 to 8192 places,
//! and records which of the sent packets are lost. It has no clock and writes no packet. `srt_sub` decides when
//! packets expire and are resent, and encodes them; `srt_loss` decodes loss lists; `srt_ring` stores the payload
//! bytes.
//!
//! Types: [`SendBuf`], the buffer; [`Out`], a packet to be sent; [`DropRun`], the contents of a drop request;
//! [`Full`], the error of `queue` without a free place.
//!
//! Calls: `SendBuf::open` once; `start` for each session; `queue` for each payload. `ack` and `lose` process the
//! peer's reports; `expire` drops old payloads, and `lose_all` marks everything for resending. `next_due` returns lost
//! packets first and then new ones; call `note_sent` after each, until `next_due` returns None.
//!
//! Files: `buffer.rt` has the types, queueing, expiry, and the loss marks of a NAK; `acknowledging.rt` the numbers
//! that an ACK may have, and its effect; `expired_numbers.rt` the numbers of a drop request; `next_due.rt` the next
//! packet to send; `flow_window.rt` whether it may be a new one. They use `ring.rt`, the ring of packets; `hints.rt`,
//! which speeds up its search for lost packets; and `parts.rt`, which sorts long loss lists. `laws.rt` states facts
//! about the definitions; `specs/Sending.antt` defines all results, and `specs/Stands.antt` defines how the fields
//! represent them.
#![tactic(auto)]

mod acknowledging;
mod buffer;
mod expired_numbers;
mod flow_window;
mod hints;
pub mod laws;
mod next_due;
mod parts;
mod ring;

pub use buffer::{DropRun, Full, Out, SendBuf};

#[cfg(test)]
mod tests;
