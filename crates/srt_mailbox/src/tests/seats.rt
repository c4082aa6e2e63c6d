//! Seats: each end is taken once, each owner's reader reaches the routes in their order, and a route whose ends were
//! taken from a seat is served and finalised as any other.

ghost use Rattle.std.specs.Prelude.{◌≡◌, ◌≤◌, [], Ok, Some, IfOk};
ghost use Rattle.srt_mailbox.specs.Cells.{AreEndsOf};
ghost use Rattle.srt_mailbox.specs.Identities.{identity_in};
ghost use Rattle.srt_mailbox.specs.Places.{arrived, places_of};
ghost use Rattle.srt_mailbox.specs.Seats.{IsNewPoller, IsNewClock};

use crate::slots::handing::take_over;
use crate::tests::datagrams::{publisher_answer, publisher_conclusion};
use crate::tests::observing::Eye;
use crate::tests::{Fixed, IDLE, assert_drained, assert_visited, entry, offer_times, tick};
use crate::{
    Account, Attachment, ClockEnd, ClockHand, Drain, Ingress, NoneSeated, Place, PollerEnds, Seat,
    SeatReader, Serve, Served, Unshown, open_seat,
};
use srt_types::OpenFault;
use std::alloc::Global;
use std::process::Abort;
use std::sync::Wait;
use std::test::Fail;
use std::thread;
use std::thread::{Threads, join_mut};

/// A number that is attached to a route, to recognise it.
#[derive(Drop)]
struct Mark(u32);

impl Attachment for Mark {
    ghost belongs = { λ terms index mark. mark.0 ≤ 100 };
}

/// Returns a seat with a route of this index, and this mark.
fn marked(alloc: Global, index: usize, mark: u32) -> Result<Seat<Mark>, Fail>
    requires { mark ≤ 100 }
{
    match open_seat(alloc, &entry(alloc)?, index, Mark(mark)) {
        Ok(seat) => Ok(seat),
        Err(_) => Err(Fail::from("the route opens")),
    }
}

/// Returns the poller's ends of a seat, or of a reader; an error if there are none.
fn are_there(ends: Result<PollerEnds<Mark>, NoneSeated>) -> Result<PollerEnds<Mark>, Fail>
    ensures { IfOk result (λ e. ends ≡ Ok e) }
{
    match ends {
        Ok(ends) => Ok(ends),
        Err(_) => Err(Fail::from("the poller's ends are there")),
    }
}

/// Returns the clock's end; an error if there is none.
fn is_there(hand: Result<ClockHand, NoneSeated>) -> Result<ClockHand, Fail>
    ensures { IfOk result (λ h. hand ≡ Ok h) }
{
    match hand {
        Ok(hand) => Ok(hand),
        Err(_) => Err(Fail::from("the clock's end is there")),
    }
}

/// The poller's ends, taken from a seat.
fn poller_of(seat: &Seat<Mark>) -> Result<PollerEnds<Mark>, Fail>
    ensures { IfOk result (λ e. IsNewPoller (identity_in seat.now.cell) e.ingress e.drain) }
{
    match take_over(&seat.poller) {
        Ok(ends) => Ok(ends),
        Err(_) => Err(Fail::from("the poller's ends are there")),
    }
}

/// The clock's end, likewise.
fn clock_of(seat: &Seat<Mark>) -> Result<ClockHand, Fail>
    ensures { IfOk result (λ h. IsNewClock (identity_in seat.now.cell) h.end) }
{
    match take_over(&seat.clock) {
        Ok(hand) => Ok(hand),
        Err(_) => Err(Fail::from("the clock's end is there")),
    }
}

#[test]
fn a_seat_gives_each_end_once(rt: HostRuntime) -> Result<(), Fail> {
    let seat = marked(rt.alloc(), 3, 7)?;
    let ends = poller_of(&seat)?;
    let _hand = clock_of(&seat)?;
    assert!(rt; take_over(&seat.poller).is_err());
    assert!(rt; take_over(&seat.clock).is_err());
    assert_eq!(rt; ends.companion.0, 7);
    Ok(())
}

/// Asserts that no seat is made for a route of this latency and this index, and by which fault.
fn assert_unseated(
    rt: &(impl AllocGlobal + Abort),
    latency_ms: u32,
    index: usize,
    fault: OpenFault,
) -> Result<(), Fail> {
    let mut late = entry(rt.alloc())?;
    late.latency_ms = latency_ms;
    assert!(rt;
        matches!(&open_seat(rt.alloc(), &late, index, Mark(0)), Err(found) if *found == fault)
    );
    Ok(())
}

#[test]
fn a_seat_refuses_what_a_route_does(rt: HostRuntime) -> Result<(), Fail> {
    assert_unseated(&rt, 10, 0, OpenFault::Limits)?;
    assert_unseated(&rt, 120, 511, OpenFault::Limits)
}

/// Offers a conclusion and a tick to the ends of a place's route, lets a worker make all steps, and drains the answer.
fn assert_goes_through(
    rt: &(impl AllocGlobal + Wait + Abort),
    place: &Place<Mark>,
    ingress: &mut Ingress,
    clock: &mut ClockEnd,
    drain: &mut Drain,
) -> Result<(), Fail>
    ensures ingress { ingress.new.queue ≡ ingress.old.queue }
    ensures clock { clock.new.queue ≡ clock.old.queue }
    ensures drain { drain.new.queue ≡ drain.old.queue }
{
    offer_times(rt, ingress, publisher_conclusion(), 1)?;
    assert!(rt; tick(rt, clock, 1_000_000));
    assert_visited(rt, place, 64, (3, 1, Some(IDLE)));
    assert_drained(rt, drain, publisher_answer())
}

/// Returns the final counters of a seat's route, which these ends belong to.
fn account_of<R: Wait>(
    rt: &R,
    seat: &Seat<Mark>,
    ingress: Ingress,
    clock: ClockEnd,
    drain: Drain,
) -> Result<Account, Fail>
    requires { AreEndsOf (identity_in seat.now.cell) ingress clock drain }
{
    match seat.close_out(rt, ingress, clock, drain, &mut Eye::new()) {
        Ok(account) => Ok(account),
        Err(_) => Err(Fail::from("nobody has the route")),
    }
}

/// Final counters of the route of a place after a conclusion and a tick.
const ONE_ANSWER: Account = Account {
    taken: 2,
    left: 0,
    waiting: 0,
    queued: 0,
    drained: 1,
};

/// An empty place is idle and shows nothing; one with a seat serves its route, shows it, and accepts no other seat.
/// Once the route is finalised it stays claimed.
#[test]
fn a_place_serves_the_route_of_its_seat(rt: HostRuntime) -> Result<(), Fail> {
    let place = Place::new();
    assert_visited(&rt, &place, 64, (0, 0, Some(IDLE)));
    assert_eq!(rt; place.serve(&rt, &mut Fixed::open()), IDLE);
    assert!(rt; matches!(place.show(&rt, &mut Eye::new()), Err(Unshown::Empty(_))));
    let Ok(token) = place.put(marked(rt.alloc(), 0, 7)?) else {
        return Err(Fail::from("the place is empty"));
    };
    let seat = place.seat.value(&token);
    let PollerEnds {
        mut ingress,
        mut drain,
        companion: _,
    } = poller_of(seat)?;
    let ClockHand { mut end } = clock_of(seat)?;
    assert_goes_through(&rt, &place, &mut ingress, &mut end, &mut drain)?;
    assert!(rt; place.show(&rt, &mut Eye::new()).is_ok());
    assert_eq!(rt; account_of(&rt, seat, ingress, end, drain)?, ONE_ANSWER);
    assert_eq!(rt;
        place.serve(&rt, &mut Fixed::open()),
        Served::ClaimedElsewhere
    );
    Ok(())
}

/// A place with a seat returns another one unchanged.
#[test]
fn a_place_has_one_seat(rt: HostRuntime) -> Result<(), Fail> {
    let place = Place::new();
    assert!(rt; place.put(marked(rt.alloc(), 0, 7)?).is_ok());
    let Err(back) = place.put(marked(rt.alloc(), 0, 8)?) else {
        return Err(Fail::from("the place has a seat"));
    };
    assert_eq!(rt; poller_of(&back)?.companion.0, 8);
    Ok(())
}

/// Returns this many empty places.
fn empty_places(alloc: Global, count: usize) -> Result<Vec<Place<Mark>>, Fail> {
    let mut places = Vec::new(alloc);
    for _ in 0..count {
        places.push(Place::new())?;
    }
    Ok(places)
}

/// Puts a seat with a route of this index and with this mark into a place.
fn put_marked(
    rt: &(impl AllocGlobal + Abort),
    places: &[Place<Mark>],
    place: usize,
    index: usize,
    mark: u32,
) -> Result<(), Fail>
    requires { mark ≤ 100 }
{
    let Some(found) = places.get(place) else {
        return Err(Fail::from("a place"));
    };
    assert!(rt; found.put(marked(rt.alloc(), index, mark)?).is_ok());
    Ok(())
}

/// Returns the marks of the routes that the poller reaches next, until there is none.
fn next_marks(alloc: Global, poller: &mut SeatReader<'_, Mark>) -> Result<Vec<u32>, Fail> {
    let mut marks = Vec::new(alloc);
    for _ in 0..8 {
        let Ok(ends) = poller.next_poller() else {
            return Ok(marks);
        };
        marks.push(ends.companion.0)?;
    }
    Ok(marks)
}

/// Returns the number of routes that the clock's thread reaches next, until there is none.
fn next_clocks(clock: &mut SeatReader<'_, Mark>) -> usize {
    let mut count = 0usize;
    for _ in 0..8 {
        if clock.next_clock().is_err() {
            return count;
        }
        count = count.saturating_add(1);
    }
    count
}

/// Asserts which marks the poller reaches next; the clock reaches as many routes, and this many have been reached by
/// both.
fn assert_come(
    rt: &(impl AllocGlobal + Abort),
    poller: &mut SeatReader<'_, Mark>,
    clock: &mut SeatReader<'_, Mark>,
    marks: &[u32],
    routes: usize,
) -> Result<(), Fail> {
    assert!(rt; next_marks(rt.alloc(), poller)?.as_slice() == marks);
    assert_eq!(rt; next_clocks(clock), marks.len());
    assert_eq!(rt; poller.routes(), routes);
    assert_eq!(rt; clock.routes(), routes);
    Ok(())
}

/// A route whose place is after an empty one waits for that, and one with another index than its place isn't reached.
#[test]
fn routes_come_in_the_order_of_their_places(rt: HostRuntime) -> Result<(), Fail> {
    let places = empty_places(rt.alloc(), 4)?;
    let mut poller = SeatReader::new(rt.alloc(), places.as_slice())?;
    let mut clock = SeatReader::new(rt.alloc(), places.as_slice())?;
    assert_come(&rt, &mut poller, &mut clock, &[], 0)?;
    put_marked(&rt, &places, 1, 1, 11)?;
    assert_come(&rt, &mut poller, &mut clock, &[], 0)?;
    put_marked(&rt, &places, 0, 0, 10)?;
    assert_come(&rt, &mut poller, &mut clock, &[10, 11], 2)?;
    put_marked(&rt, &places, 2, 5, 12)?;
    put_marked(&rt, &places, 3, 3, 13)?;
    assert_come(&rt, &mut poller, &mut clock, &[], 2)
}

/// Takes the ends of the route that both readers reach first, and finalises it.
fn settle_first<'a, R: Wait>(
    rt: &R,
    poller: &mut SeatReader<'a, Mark>,
    clock: &mut SeatReader<'a, Mark>,
) -> Result<Account, Fail>
    requires same { places_of poller.old ≡ places_of clock.old }
    requires poller { arrived poller.old ≡ [] }
    requires clock { arrived clock.old ≡ [] }
{
    let PollerEnds { ingress, drain, .. } = are_there(poller.next_poller())?;
    let ClockHand { end } = is_there(clock.next_clock())?;
    poller.agree(clock, 0);
    account_of(rt, poller.seat(0), ingress, end, drain)
}

/// The ends that two readers took at one index are those of one route, which is finalised with them.
#[test]
fn what_two_readers_took_is_settled(rt: HostRuntime) -> Result<(), Fail> {
    let places = empty_places(rt.alloc(), 1)?;
    let mut poller = SeatReader::new(rt.alloc(), places.as_slice())?;
    let mut clock = SeatReader::new(rt.alloc(), places.as_slice())?;
    put_marked(&rt, &places, 0, 0, 10)?;
    let account = settle_first(&rt, &mut poller, &mut clock)?;
    assert!(rt; account.taken == 0 && account.left == 0 && account.drained == 0);
    Ok(())
}

/// State of a clock's thread: its reader, and the ends that it has taken.
#[derive(Drop)]
struct ClockSide<'a> {
    reader: SeatReader<'a, Mark>,
    hands: Vec<ClockHand>,
}

/// Reads until this many ends have been taken, for a limited number of attempts.
fn await_clocks(clock: &mut ClockSide<'_>, routes: usize) {
    for _ in 0..10_000_000 {
        if let Ok(hand) = clock.reader.next_clock() {
            let _ = clock.hands.push(hand);
        }
        if clock.hands.len() == routes {
            return;
        }
        thread::yield_now();
    }
}

/// Puts three seats in sequence, and takes the poller's ends of each at once.
fn put_three(
    rt: &(impl AllocGlobal + Abort),
    places: &[Place<Mark>],
    poller: &mut SeatReader<'_, Mark>,
) -> Result<(), Fail> {
    for (index, mark) in [(0, 20), (1, 21), (2, 22)] {
        put_marked(rt, places, index, index, mark)?;
        assert_eq!(rt; are_there(poller.next_poller())?.companion.0, mark);
    }
    Ok(())
}

/// Reads in another thread while this one opens routes and polls.
fn come_beside<R: AllocGlobal + Threads + Wait + Abort + Sync>(
    rt: &R,
    places: &[Place<Mark>],
    poller: &mut SeatReader<'_, Mark>,
    clock: &mut ClockSide<'_>,
) -> Result<(), Fail> {
    let (_, put) = join_mut(
        rt,
        &mut || await_clocks(clock, 3),
        &mut || put_three(rt, places, poller),
    );
    put
}

/// Routes that are opened while the clock's thread runs are reached by it.
#[test]
fn routes_come_to_another_thread(rt: HostRuntime) -> Result<(), Fail> {
    let places = empty_places(rt.alloc(), 3)?;
    let mut poller = SeatReader::new(rt.alloc(), places.as_slice())?;
    let mut clock = ClockSide {
        reader: SeatReader::new(rt.alloc(), places.as_slice())?,
        hands: Vec::with_capacity(rt.alloc(), 3)?,
    };
    come_beside(&rt, &places, &mut poller, &mut clock)?;
    assert_eq!(rt; clock.reader.routes(), 3);
    assert_eq!(rt; clock.hands.len(), 3);
    Ok(())
}

/// The account of a route that took one of two ticks, neither of which brings a reply.
const ONE_LEFT: Account = Account {
    taken: 1,
    left: 1,
    waiting: 0,
    queued: 0,
    drained: 0,
};

/// Asserts that a place serves and shows a route of this index, and that it is settled with what is left.
fn assert_served_and_settled(
    rt: &(impl AllocGlobal + Wait + Abort),
    index: usize,
) -> Result<(), Fail> {
    let place = Place::new();
    let Ok(token) = place.put(marked(rt.alloc(), index, 7)?) else {
        return Err(Fail::from("the place is empty"));
    };
    let seat = place.seat.value(&token);
    let PollerEnds {
        ingress,
        drain,
        companion: _,
    } = poller_of(seat)?;
    let ClockHand { mut end } = clock_of(seat)?;
    assert!(rt; tick(rt, &mut end, 5));
    assert_visited(rt, &place, 64, (1, 0, Some(IDLE)));
    assert!(rt; place.show(rt, &mut Eye::new()).is_ok());
    assert!(rt; tick(rt, &mut end, 6));
    assert_eq!(rt; account_of(rt, seat, ingress, end, drain)?, ONE_LEFT);
    Ok(())
}

const LATE: [usize; 6] = [3, 9, 64, 100, 255, 510];

fn assert_all_served_and_settled(
    rt: &(impl AllocGlobal + Wait + Abort),
    rows: &[usize],
) -> Result<(), Fail> {
    for index in rows {
        assert_served_and_settled(rt, *index)?;
    }
    Ok(())
}

#[test]
fn a_route_of_any_index_is_served_and_settled(rt: HostRuntime) -> Result<(), Fail> {
    assert_all_served_and_settled(&rt, &LATE)
}

/// Puts a seat with a small route of this index into the place of that index.
fn put_small(
    rt: &(impl AllocGlobal + Abort),
    places: &[Place<Mark>],
    index: usize,
) -> Result<(), Fail> {
    let mut small = entry(rt.alloc())?;
    small.buffer = 32;
    small.sessions = 1;
    let Some(place) = places.get(index) else {
        return Err(Fail::from("a place"));
    };
    match open_seat(rt.alloc(), &small, index, Mark(0)) {
        Ok(seat) => assert!(rt; place.put(seat).is_ok()),
        Err(_) => return Err(Fail::from("the route opens")),
    }
    Ok(())
}

#[test]
fn both_readers_reach_the_last_of_many_routes(rt: HostRuntime) -> Result<(), Fail> {
    let places = empty_places(rt.alloc(), 128)?;
    let mut poller = SeatReader::new(rt.alloc(), places.as_slice())?;
    let mut clock = SeatReader::new(rt.alloc(), places.as_slice())?;
    for index in 0..128 {
        put_small(&rt, &places, index)?;
        assert!(rt; poller.next_poller().is_ok());
        assert!(rt; clock.next_clock().is_ok());
    }
    assert_eq!(rt; poller.routes(), 128);
    assert_eq!(rt; clock.routes(), 128);
    Ok(())
}
