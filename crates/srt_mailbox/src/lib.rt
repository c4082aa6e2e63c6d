//! A route that threads share: it is guarded by a claim word, and connected by a bounded inbox and a bounded outbox.
//!
//! It starts no thread (`srt_serve` does), uses no socket (`srt_poller` does), and doesn't define a route's replies
//! (`srt_route` does). After `open_route` no call allocates: replies are passed in boxes that are reused
//! (`spares.rt`). The body buffer of a processed datagram returns to the poller with a reply, to be filled again.
//!
//! Types: the four ends of a route, which are `Ingress` (the poller offers datagrams), `ClockEnd` (the ticking thread
//! offers ticks), `RouteCell` (workers serve the route) and `Drain` (the poller takes replies). A `Gate` may refuse a
//! turn (`Ungated` never does), `Served` is the outcome of a turn that was asked for, `Visit` that of several, and
//! `Account` has the counts of a route that has ended, and a `TakenRoute` was taken out of its cell to be settled. A
//! `Observer` is shown a route under its claim. `InboxFull` and `OutboxEmpty` are evidence of a refusal,
//! `TakenElsewhere` of what another call has taken, `Unshown` of a route that couldn't be shown, `NoneSeated` of a
//! place without a further route. For routes that come while threads run: a `Seat` has a route and its ends until their
//! owners take them (`PollerEnds` with a `Attachment`, `ClockHand`), a `Place` has a seat or is empty, and each owner
//! has a `SeatReader`.
//!
//! Calls: `open_route`; then, each from its own thread, `offer` on `Ingress` (for a datagram also `offer_datagram`) and
//! on `ClockEnd`, `RouteCell::visit` or `RouteCell::serve` (any number of workers; `Serve::show` makes no turn),
//! and `Drain::take` with `Drain::reply` and `Drain::take_buffer`; last `settle`, which takes all four ends. With seats
//! `open_seat` and `Place::put`; then, each owner, `SeatReader::next_poller` or `next_clock`; last `SeatReader::agree`,
//! `seat` and `Seat::close_out`.
//!
//! Files: the claim word is in `cells.rt` and `slots.rt`, what a call has of a claimed route in `slots/claims.rt`, and
//! of one that it took out for good in `slots/taken_route.rt`, one turn of a route in `running.rt`, what a snapshot is
//! handed in `observer.rt`, the queues in `inbox.rt` and `outbox.rt`, what passes through them in `inbox_rule.rt` and
//! `outbox_rule.rt` (`specs/Inbox.antt`, `specs/Outbox.antt`), and the evidence that one of them was full or empty in
//! `evidence.rt`. That the replies don't depend on which worker serves is `Replays` in `specs/Runs.antt`. Seats are in
//! `seats.rt`, their places in `added_seats.rt`, what serves these in `place_service.rt`, and what reads them in
//! `readers.rt` and `next_ends.rt` (`specs/Places.antt`), with the evidence of `misplaced.rt`, by `slots/handing.rt`.
#![tactic(auto)]

mod accounts;
mod added_seats;
mod cells;
mod evidence;
mod gates;
mod inbox;
mod inbox_rule;
mod misplaced;
mod next_ends;
mod observer;
mod openings;
mod outbox;
mod outbox_rule;
mod place_service;
mod readers;
mod running;
mod seats;
mod slots;
mod spares;

pub use accounts::{Account, Unsettled, settle};
pub use added_seats::{EmptyPlace, Place};
pub use cells::{RouteCell, Serve, Unshown};
pub use evidence::{InboxFull, OutboxEmpty};
pub use gates::{Gate, Served, Ungated, Visit};
pub use inbox::{ClockEnd, Ingress, OfferFault};
pub use observer::Observer;
pub use openings::open_route;
pub use outbox::Drain;
pub use readers::{NoneSeated, SeatReader};
pub use running::BUFFER_ROOM;
pub use seats::{Attachment, ClockHand, PollerEnds, Seat, SeatTag, open_seat};
pub use slots::TakenElsewhere;
pub use slots::taken_route::TakenRoute;

#[cfg(test)]
mod tests;
