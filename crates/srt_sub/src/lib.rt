//! A subscriber's session: which payloads it is sent, which are sent again, and which are too late
//! (draft-sharabayko-srt-01, sections 3.2.4 to 3.2.9, 4.6, 4.8 and 4.10).
//!
//! It starts after the handshake, and has no clock and no socket: times are arguments, and packets are written into a
//! buffer that the caller passes. The handshake is in `srt_hs`; the timeout of five seconds for a silent peer is in
//! `srt_route`; the queue of packets is `srt_sendbuf`.
//!
//! Types: [`Subscriber`], the session; [`Opening`], its parameters, with the rule [`Resending`]; [`Took`], the result of
//! a packet from the caller; [`Emitted`], a packet of an event's end; [`Statistics`], a snapshot of it, with its [`Counts`]
//! and [`Sendings`].
//!
//! Calls: `Subscriber::open` once; `start` for each session. Then for each event: `expire`; `datagram` if a packet
//! arrived; `feed` for each payload of the route; and `emit`, which writes one packet each time, until it returns
//! false. `emit_indexed` also tells which payload a data packet has.
//!
//! Files: `feeding.rt` has the rules for feeding; `too_late_drop.rt` for the drop of late packets; `hearing.rt` for ACK, NAK and SHUTDOWN;
//! `event_packets.rt` for the packets at an event's end and their order; `drop_request.rt` for drop requests;
//! `holding.rt` for payloads that wait for a key, and `payloads.rt` for their indexes; `resend_all.rt` for resending
//! everything; `resend_credit.rt` for the limit on resends; `keep_alive.rt` for KEEPALIVEs.
//! `history.rt` stores the flow window and other state; `counts.rt` has the counters, and `statistics.rt` the
//! snapshot; `session.rt` begins a session; `packets.rt` writes packets. `specs/Subscribing.antt` defines what a
//! session sends, `specs/Says.antt` its bytes, `specs/Payloads.antt` which payload a packet has,
//! `specs/Counting.antt` its counters, `specs/Tries.antt` how often everything is sent again; `laws.rt` states facts
//! about these.
#![tactic(auto)]

mod counts;
mod drop_request;
mod event_packets;
mod feeding;
mod hearing;
mod history;
mod holding;
mod keep_alive;
pub mod laws;
mod packets;
mod payloads;
mod resend_all;
mod resend_credit;
mod session;
mod statistics;
mod too_late_drop;

pub use counts::{Counts, Sendings};
pub use hearing::Took;
pub use payloads::Emitted;
pub use resend_all::Resending;
pub use session::{Opening, Subscriber};
pub use statistics::Statistics;

#[cfg(test)]
mod tests;
