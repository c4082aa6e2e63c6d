//! A route: sessions open and close, and the active publisher's payloads are forwarded to the subscribers. A second
//! publisher is the standby, and takes over when the active one ends or, if so configured, falls silent. Closing the
//! route ends every session.
//!
//! A route reads neither a clock nor a socket: each datagram, tick or Close arrives as an item, and replies wait in a
//! queue. It doesn't choose the route of a datagram and checks no cookie (`srt_lobby` does both). The behaviour of a
//! single session is in `srt_pub` and `srt_sub`.
//!
//! Types: a `Route` contains a `ReplyQueue` and, until it is closed, a `Table`, with the seats of its slots and the
//! publishers' buffers (`stage.rt`). A `Seat` has a session, whose `Part` is a publisher's, a draining
//! publisher's or a subscriber's, and its buffers. A `Reply` is a packet and its receiver. A `SessionView` is a snapshot of an
//! open session with its counts, an `EndedSession` one of a session that ended. A `Ledger` keeps the last ended session
//! of each slot, and the route's counts.
//!
//! Calls: `Route::open`, or `Route::open_resting`; then `step` for each item, and `next_reply` until it returns false, before the next `step`.
//! `session` returns a snapshot of a slot at any time and changes nothing (`view.rt`), as do `ended`, `opened`,
//! `refused`, `refused_for` and `totals`.
//!
//! `step` in `route.rt` processes an event in six steps, all but the first in `event.rt`:
//!
//! - 1: the clock.
//! - 2: `silence.rt` ends idle sessions, drops what is too late, and lets the standby take over.
//! - 3: `dispatch.rt` processes a packet of a session, a conclusion or a Close (`closing.rt`). For conclusions,
//!   `conclusion_reading.rt` reads them, `repeated_conclusion.rt` answers a repeated one, `admission.rt` checks for each
//!   refusal, `refusals.rt` has the causes, `agreement.rt` the negotiated values and `answer_writing.rt` the answer. If a
//!   role has a passphrase, `secured.rt` judges a conclusion before.
//! - 4: `delivery.rt` delivers payloads, and `draining.rt` ends sessions that have drained.
//! - 5: `transmit.rt` sends the publishers' packets.
//! - 6: `subscriber_transmit.rt` sends the subscribers' packets, by `transmit.rt` without keys, and by `encrypted_transmit.rt`
//!   those of a session with keys of its own.
//!
//! Other modules: `resting.rt` opens a route that continues where another one rests; `files.rt` has the end of a file,
//! and which subscribers have all of it; `standby.rt`, which of two publishers is active; `socket_ids.rt`, the socket
//! IDs; `reply_queue.rt`, the waiting replies; `ledger.rt` and `totals.rt`, what is kept of ended sessions;
//! `key_refresh.rt`, the messages that renew a publisher's keys; `key_confirmation.rt`, those that confirm a subscriber's;
//! `route_keys.rt`, `slot_keys.rt`, `key_request_reading.rt` and `key_text.rt`, the keys of sessions; `key_length.rt`, their
//! length, which a snapshot shows. The definition of a
//! route is in `specs/Route.antt`, those of ends and counts in `specs/Ends.antt` and `specs/Tallies.antt`, and those of keys
//! in `specs/RouteKeys.antt`.
#![tactic(auto)]

mod admission;
mod agreement;
mod answer_writing;
mod arrival;
mod closing;
mod conclusion_reading;
mod delivery;
mod dispatch;
mod draining;
mod encrypted_transmit;
mod event;
mod files;
mod giving_up;
mod key_confirmation;
mod key_length;
mod key_refresh;
mod key_request_reading;
mod key_text;
pub mod laws;
mod ledger;
mod opening;
mod part;
mod publisher_buffers;
mod refusals;
mod repeated_conclusion;
mod replies;
mod reply_queue;
mod resting;
mod route;
mod route_keys;
mod seat;
mod secured;
mod silence;
mod slot_keys;
mod socket_ids;
mod stage;
mod standby;
mod start;
mod subscriber_transmit;
mod table;
mod totals;
mod transmit;
mod view;

pub use ledger::{EndCause, EndedSession};
pub use refusals::RefusalCause;
pub use replies::{Reply, blank_boxes};
pub use route::Route;
pub use totals::Totals;
pub use view::{SessionView, Traffic};

#[cfg(test)]
mod clock_tests;
#[cfg(test)]
mod closing_tests;
#[cfg(test)]
mod encrypted_tests;
#[cfg(test)]
mod key_tests;
#[cfg(test)]
mod ledger_tests;
#[cfg(test)]
mod resend_tests;
#[cfg(test)]
mod rules_tests;
#[cfg(test)]
mod secured_tests;
#[cfg(test)]
mod tests;
