//! Opens the routes with which a run begins, before any thread is started.

ghost use Rattle.std.specs.Prelude.{◌≡◌, ◌≤◌, ℕ, [], ◌∷◌, ◌++◌, Some, IfOk, OnOk, map, length, take, slice_get};
ghost use Rattle.std.specs.Vec.{vec_capacity};
ghost use Rattle.srt_types.specs.Terms.{terms_of};
ghost use Rattle.srt_mailbox.specs.Cells.{CellIdentity};
ghost use Rattle.srt_mailbox.specs.Identities.{identity_in};
ghost use Rattle.srt_mailbox.specs.Places.{arrived, locks_of};
ghost use Rattle.srt_poller.specs.declared.ends.Ends.{Ends as TheEnds};
ghost use Rattle.srt_serve.specs.Opened.{IsOpened, AreOpened, terms_in, new_clock, new_clocks};

use crate::answers::Beginning;
use crate::arrivals::{ClockArrivals, NameAttachment, seat_route};
use srt_mailbox::{Attachment, ClockEnd, Place, PollerEnds, Seat, SeatReader};
use srt_poller::Ends;
use srt_supervision::Answers;
use srt_types::Entry;
use std::alloc::{AllocError, Global};
use std::sync::OnceToken;

/// The first routes of a run, which have been taken from their seats. Each list is in the order of their indexes, and has
/// room for as many as there are places.
#[derive(Drop)]
pub struct Opened<'a, A: Answers + Beginning>
where
    NameAttachment<A>: Attachment,
{
    /// The polling thread's, which has reached all of them.
    pub routes: SeatReader<'a, NameAttachment<A>>,
    /// The poller's ends: of the inbox and of the outbox.
    pub ends: Vec<Ends>,
    /// The ticking thread's, which has reached all of them.
    pub arrivals: ClockArrivals<'a, A>,
    /// The clock's ends of the inboxes.
    pub clocks: Vec<ClockEnd>,
    /// Of each place, which route it was given. No bytes.
    pub put: Vec<OnceToken<'a, Seat<NameAttachment<A>>>>,
}

// Puts a route into the next place, and takes the poller's ends from there. Returns the knowledge that it is there.
fn take_first<'a, A: Answers + Beginning>(
    routes: &mut SeatReader<'a, NameAttachment<A>>,
    ends: &mut Vec<Ends>,
    places: &'a [Place<NameAttachment<A>>],
    seat: Seat<NameAttachment<A>>,
) -> Result<OnceToken<'a, Seat<NameAttachment<A>>>, AllocError>
    requires { locks_of routes.old ≡ map (λ p. p.seat.id) places.now }
    ensures put { IfOk result (λ t. (slice_get (locks_of routes.old) (length (arrived routes.old)) ≡ Some t.of)
        × (identity_in t.value.cell ≡ identity_in seat.cell)) }
    ensures taken { OnOk result ((e : TheEnds) × (arrived routes.new ≡ arrived routes.old ++ identity_in seat.cell ∷ [])
        × (ends.new.items ≡ ends.old.items ++ e ∷ []) × IsOpened (length (arrived routes.old)) (identity_in seat.cell) e) }
    ensures places { locks_of routes.new ≡ locks_of routes.old }
    ensures room { vec_capacity ends.old ≤ vec_capacity ends.new }
{
    let index = routes.routes();
    let Some(place) = places.get(index) else {
        return Err(AllocError);
    };
    let Ok(put) = place.put(seat) else {
        return Err(AllocError);
    };
    let Ok(taken) = routes.next_poller() else {
        return Err(AllocError);
    };
    routes.reached(index, &put);
    let PollerEnds { ingress, drain, .. } = taken;
    ends.push(Ends { ingress, drain })?;
    Ok(put)
}

// Takes the clock's end of the next route.
fn take_first_clock<A: Answers + Beginning>(
    arrivals: &mut ClockArrivals<'_, A>,
    clocks: &mut Vec<ClockEnd>,
) -> Result<(), AllocError>
    ensures taken { OnOk result ((n : CellIdentity) × (arrived arrivals.new.reader ≡ arrived arrivals.old.reader ++ n ∷ [])
        × (clocks.new.items ≡ clocks.old.items ++ new_clock n ∷ [])) }
    ensures places { locks_of arrivals.new.reader ≡ locks_of arrivals.old.reader }
    ensures room { vec_capacity clocks.old ≤ vec_capacity clocks.new }
{
    let Ok(hand) = arrivals.reader.next_clock() else {
        return Err(AllocError);
    };
    clocks.push(hand.end)?;
    Ok(())
}

/// Opens the routes of these entries, in order, in these places, which must be empty. Allocates all memory that they will
/// ever need. An error means out of memory, that an entry is out of its limits (`run` requires that none is), or that there
/// are fewer places.
pub fn open_routes<'a, A: Answers + Beginning>(
    alloc: Global,
    entries: &[Entry],
    places: &'a [Place<NameAttachment<A>>],
) -> Result<Opened<'a, A>, AllocError>
    requires { length entries.now ≤ A.first }
    ensures entries { IfOk result (λ o. terms_in (arrived o.routes) ≡ map terms_of entries.now) }
    ensures opened { IfOk result (λ o. AreOpened (arrived o.routes) o.ends.items) }
    ensures clocks { IfOk result (λ o. o.clocks.items ≡ new_clocks (arrived o.arrivals.reader)) }
    ensures places { IfOk result (λ o. locks_of o.arrivals.reader ≡ locks_of o.routes) }
    ensures room { IfOk result (λ o. length places.now ≤ vec_capacity o.ends) }
    ensures clock_room { IfOk result (λ o. length places.now ≤ vec_capacity o.clocks) }
    ensures put { IfOk result (λ o. (map (λ t. t.of) o.put.items ≡ take (length o.put.items) (locks_of o.routes))
        × (map (λ t. identity_in t.value.cell) o.put.items ≡ arrived o.routes)) }
{
    let mut routes = SeatReader::new(alloc, places)?;
    let mut arrivals = ClockArrivals {
        reader: SeatReader::new(alloc, places)?,
    };
    let mut ends = Vec::with_capacity(alloc, places.len())?;
    let mut clocks = Vec::with_capacity(alloc, places.len())?;
    let mut put = Vec::with_capacity(alloc, places.len())?;
    let mut index = 0;
    for entry in entries {
        let Ok(seat) = seat_route(alloc, entry, index) else {
            return Err(AllocError);
        };
        let token = take_first(&mut routes, &mut ends, places, seat)?;
        put.push(token)?;
        take_first_clock(&mut arrivals, &mut clocks)?;
        index += 1;
    }
    Ok(Opened {
        routes,
        ends,
        arrivals,
        clocks,
        put,
    })
}
