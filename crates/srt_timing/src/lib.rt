//! The times of a session: when a packet received from a publisher is due and when a packet for a subscriber is too late
//! (timestamp-based packet delivery, TSBPD; draft-sharabayko-srt-01, sections 4.5.1, 4.6 and 4.7), the round-trip time, and
//! the Full ACKs that ACKACKs can confirm (sections 3.2.4, 3.2.8 and 4.10).
//!
//! It only computes times. It holds no packets, sends nothing and reads no clock: `srt_recvbuf` and `srt_pub` deliver
//! packets that are due and decide when ACKs and NAKs are sent; `srt_sendbuf` and `srt_sub` drop packets that are too late
//! and decide when packets are retransmitted. Buffer mode uses no deadlines. Each function is O(1), and only
//! `AckBook::open` allocates.
//!
//! Deadlines: [`Base`] in `deadlines.rt` relates the sender's clock to the gateway's. `Base::new` returns it when a session
//! opens; then `Base::deadline` returns the time at which a packet is due. [`Drift`] in `session_drift.rt` estimates from ACKACKs by
//! how much the sender's clock is slow or fast since the opening, which corrects deadlines. [`too_late_before`] in
//! `too_late.rt` returns the threshold of too-late packet drop.
//!
//! Round trips: [`Rtt`] in `round_trip.rt` has the smoothed round-trip time and its variance (RTTVar). A subscriber's session
//! stores the values of the ACKs that it receives. Two timers are derived from the values: `resend_after`, that of retransmission, and
//! `nak_interval`, that of periodic NAKs.
//! [`SampledRtt`] in `sampled.rt` has the same values computed from samples: a publisher's session, which sends ACKs, feeds
//! it samples. [`Fold`] is the effect of a sample on the values: for callers that run libsrt, the first sample replaces them.
//!
//! Confirmations: [`AckBook`] in `book.rt` has the last 64 Full ACKs. `open` it once; `note` each Full ACK that is sent,
//! which returns its number; `confirm` each received ACKACK, which returns a sample for `SampledRtt::sample`.
//!
//! All times are microseconds. Times passed as parameters of deadlines are below 2^62; results are signed, since they can
//! lie before time 0. The definitions are in `specs/Deadline.antt`, `specs/Drift.antt`, `specs/RoundTrip.antt` and
//! `specs/Book.antt`.
#![tactic(auto)]

mod book;
mod deadlines;
mod drift_windows;
pub mod laws;
mod round_trip;
mod sampled;
mod session_drift;
mod stamps;
mod too_late;

pub use book::AckBook;
pub use deadlines::Base;
pub use round_trip::Rtt;
pub use sampled::{Fold, SampledRtt};
pub use session_drift::Drift;
pub use stamps::since_conclusion;
pub use too_late::too_late_before;

#[cfg(test)]
mod deadline_tests;
#[cfg(test)]
mod drift_tests;
#[cfg(test)]
mod round_trip_tests;
