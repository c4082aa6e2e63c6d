//! The two stages of a route: it is open, or it was closed and has given its memory back.

ghost use Rattle.std.specs.Prelude.{◌≡◌, ◌<◌, ◌≤◌, ℕ, length, slice_index_or};
ghost use Rattle.srt_route.specs.declared.seat.Seat.{Seat as TheSeat};

use crate::reply_queue::ScratchBoxes;
use crate::route_keys::RouteKeys;
use crate::seat::Seat;
use crate::table::Table;
use srt_types::product_limits::MAX_SESSIONS;

/// What a route has for its sessions.
#[derive(Drop)]
pub(crate) enum Stage {
    /// It is open.
    Open {
        /// The sessions and their buffers.
        table: Table,
        /// What it has for its secured roles.
        keys: RouteKeys,
        /// The boxes into which an event writes its packets.
        scratch: ScratchBoxes,
    },
    /// It was closed: no session is open. The number of sessions that were ever opened in each slot, modulo 2^16; 0
    /// beyond the last slot.
    Closed([u16; MAX_SESSIONS]),
}

/// Returns each seat's generation; 0 beyond the last seat.
pub(crate) fn generations_of(seats: &[Seat]) -> [u16; MAX_SESSIONS]
    requires { length seats.now ≤ 17 }
    ensures counts { (slot : ℕ) (d : TheSeat) → slot < length seats.now →
        slice_index_or result slot 0 ≡ (slice_index_or seats.now slot d).generation }
    ensures none { (slot : ℕ) → length seats.now ≤ slot → slice_index_or result slot 0 ≡ 0 }
{
    let mut generations = [0; MAX_SESSIONS];
    for at in 0..seats.len() {
        generations[at] = seats[at].generation;
    }
    generations
}
