//! A publisher's session: what it receives, delivers and reports (draft-sharabayko-srt-01, sections 3.2.3 to 3.2.9,
//! 4.2, 4.5, 4.6, 4.8 and 4.10).
//!
//! It starts after the handshake, and has no clock and no socket: times are arguments, and packets to be sent are
//! written into buffers that the caller passes. The handshake is in `srt_hs`; the timeout of five seconds for a silent
//! peer is in `srt_route`; the window of packets is `srt_recvbuf`.
//!
//! Types: [`Publisher`], the session; [`Opening`], its parameters; [`Reports`], which packets an event sends;
//! [`PubEnd`], the reason why a packet ends the session; [`Statistics`], a snapshot of it, with its [`Counts`].
//!
//! Calls: `Publisher::open` once; `start` for each session. Then for each event: `datagram` if a packet arrived;
//! `next_due`, which borrows the payload that is to be delivered next, and `note_delivered` after it, both at most 64
//! times (for a standby publisher only `note_delivered`); and `transmit`, which writes the ACK, NAK and KEEPALIVE that
//! are due.
//!
//! Files: `session.rt` has the rules for data, drop requests and delivery; `opening.rt` a session's parameters;
//! `due_times.rt` due times; `window_lost.rt` the lost window that ends a live session; `transmit.rt` what is sent at
//! the end of an event; `acknowledgements.rt` Full ACKs, Light ACKs and ACKACKs; `nak.rt` NAKs and their interval;
//! `keep_alive.rt` KEEPALIVEs; `log.rt` the times of the last packets and the drift of the sender's clock; `rates.rt` the measured packet rates;
//! `questions.rt` the state that a route polls; `region.rt` the region of a number; `counts.rt` the counters, and
//! `statistics.rt` the snapshot. `specs/Publishing.antt` defines what a session sends, `specs/Says.antt` its bytes,
//! `specs/Counting.antt` its counters; `laws.rt` states facts about these.
#![tactic(auto)]

mod acknowledgements;
mod counts;
mod due_times;
mod ends;
mod keep_alive;
pub mod laws;
mod log;
mod nak;
mod opening;
mod questions;
mod rates;
mod region;
mod reports;
mod session;
mod statistics;
mod transmit;
mod window_lost;

pub use counts::Counts;
pub use ends::PubEnd;
pub use opening::Opening;
pub use reports::Reports;
pub use session::Publisher;
pub use statistics::Statistics;

#[cfg(test)]
mod tests;
