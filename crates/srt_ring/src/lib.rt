//! A ring of payload buffers, for the receive buffer and the send buffer. Buffers never move, and each is filled in
//! place by one copy, since a copy of 1.4 KB costs more than all other work of a buffer for a packet.
//!
//! It only holds bytes. `srt_recvbuf` and `srt_sendbuf` define the meaning of the ring's entries and which are free,
//! and keep a small record for each payload.
//!
//! [`PayloadRing`] is the only public type. An entry is addressed by its distance from the front, its *place*. It has
//! the same *slot* until the front passes it; `order.rt` maps a slot to its *buffer* (`buffers.rt`).
//!
//! Functions: `PayloadRing::open` with the width, the only one that allocates; then `set`, which copies one payload,
//! `payload`, which borrows one, and `advance`, which moves the front by one place. Before a `set`, `take_warm` and
//! `exchange` assign a recently used buffer to the place, so that a steady stream stays in the processor's caches. All
//! functions except `open` are O(1), apart from the bytes that they copy.
//!
//! The rules are in `ring.rt`; the definitions that its contracts name are in `specs/Ring.antt`.
#![tactic(auto)]

mod buffers;
mod order;
mod ring;

pub use ring::PayloadRing;
