//! A route's sessions and their buffers.

ghost use Rattle.std.specs.Prelude.{◌≡◌, ◌<◌, ◌≤◌, ◌^◌, ℕ, None, count_by, length, slice_index_or, IfOk, IfErr};
ghost use Rattle.srt_route.specs.Seats.{has_publisher};

use crate::publisher_buffers::PublisherBuffers;
use crate::seat::{Seat, count_publishers};
use srt_pub::Publisher;
use srt_sub::Subscriber;
use srt_types::{Entry, Mode, OpenFault, Rules};
use std::alloc::{AllocError, Global};

/// A route's seats with their sessions, the publishers' buffers, and the entry's values that answers to conclusions
/// need.
#[derive(Drop)]
pub struct Table {
    /// The route's index: below 511.
    pub index: u32,
    /// Live mode (timed delivery, with a delay) or buffer mode (in order, without loss).
    pub mode: Mode,
    /// The minimum delay of a live session, in milliseconds.
    pub latency_ms: u16,
    /// The size of each session's window, in packets: 32 to 8192.
    pub buffer: u32,
    /// The route's rules beyond the draft.
    pub rules: Rules,
    /// One seat for each slot: at most 17.
    pub seats: Vec<Seat>,
    /// The number of publishers' sessions that are open in the seats, draining ones included.
    pub open_publishers: usize,
    /// The first and the second publisher buffers; their content has no meaning while no session uses them.
    pub publishers: Vec<Publisher>,
    /// The buffers of the active publisher if two publishers are open: see `standby.rt`.
    pub leading: PublisherBuffers,
    pub ghost index_below: { index < 511 },
    pub ghost few: { length seats.items ≤ 17 },
    pub ghost counted: { open_publishers ≡ count_by has_publisher seats.items },
    pub ghost two: { length publishers.items ≡ 2 },
}

/// Returns the generation of a slot; 0 if none is given for it.
pub fn generation_at(generations: &[u16], slot: usize) -> u16
    ensures { result ≡ slice_index_or generations.now slot 0 }
{
    if slot < generations.len() {
        generations[slot]
    } else {
        0
    }
}

impl Table {
    ghost use Rattle.srt_types.specs.Terms.{terms_of};
    ghost use Rattle.srt_route.specs.Opening.{fault_of};
    ghost use Rattle.srt_route.specs.Rests.{IsResting};
    ghost use Rattle.srt_route.specs.Route.{Route};
    ghost use Rattle.srt_route.specs.Tables.{IsTable, AreWide};
    ghost use Rattle.srt_route.specs.declared.seat.Seat.{Seat as TheSeat};

    /// Allocates the buffers of two publishers, each with a window of `buffer` packets.
    fn open_publishers(alloc: Global, buffer: u32) -> Result<Vec<Publisher>, AllocError>
        requires least { 32 ≤ buffer }
        requires most { buffer ≤ 8192 }
        ensures two { IfOk result (λ v. length v.items ≡ 2) }
        ensures wide { IfOk result (λ v. AreWide buffer v.items) }
    {
        let mut publishers = Vec::with_capacity(alloc, 2)?;
        publishers.push(Publisher::open(alloc, buffer)?)?;
        publishers.push(Publisher::open(alloc, buffer)?)?;
        Ok(publishers)
    }

    /// Opens the table of a route at rest, whose slots have these generations; 0 where none is given. Allocates all
    /// buffers.
    pub fn open(
        alloc: Global,
        entry: &Entry,
        index: usize,
        generations: &[u16],
    ) -> Result<Table, OpenFault>
        requires { fault_of (terms_of entry.now) index ≡ None }
        ensures rests { IfOk result (λ table. (m : Route) (clock : ℕ) → clock < 2 ^ 62 →
            IsResting entry.now.sessions m clock generations.now → IsTable (terms_of entry.now) index clock table m.sessions) }
        ensures memory { IfErr result (λ fault. fault ≡ OpenFault.OutOfMemory) }
    {
        let Ok(publishers) = Table::open_publishers(alloc, entry.buffer) else {
            return Err(OpenFault::OutOfMemory);
        };
        let sessions = entry.sessions as usize;
        let Ok(mut seats) = Vec::with_capacity(alloc, sessions) else {
            return Err(OpenFault::OutOfMemory);
        };
        while seats.len() < sessions {
            let Ok(subscriber) = Subscriber::open(alloc, entry.buffer) else {
                return Err(OpenFault::OutOfMemory);
            };
            let generation = generation_at(generations, seats.len());
            let Ok(()) = seats.push(Seat::vacant(generation, subscriber)) else {
                return Err(OpenFault::OutOfMemory);
            };
        }
        let open_publishers = count_publishers(&seats);
        Ok(Table {
            index: index as u32,
            mode: entry.mode,
            latency_ms: entry.latency_ms as u16,
            buffer: entry.buffer,
            rules: entry.rules,
            seats,
            open_publishers,
            publishers,
            leading: PublisherBuffers::First,
        })
    }

    /// Returns the number of sessions that were ever opened in a slot, modulo 2^16; 0 if there is no such slot.
    pub fn generation(&self, slot: usize) -> u16
        ensures value { (d : TheSeat) → slot < length self.now.seats.items → result ≡ (slice_index_or self.now.seats.items slot d).generation }
        ensures none { length self.now.seats.items ≤ slot → result ≡ 0 }
    {
        if slot >= self.seats.len() {
            return 0;
        }
        self.seats[slot].generation
    }
}
