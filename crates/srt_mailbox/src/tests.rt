//! A route between its queues: steps of one thread, a full inbox, a full outbox, the final counters, and several
//! workers in parallel. The expected values were derived from the rules by hand.

mod boxes;
mod closed;
mod datagrams;
mod observing;
mod queues;
mod seats;
mod visits;

ghost use Rattle.std.specs.Prelude.{◌≡◌, ◌<◌, ◌^◌, IfOk};
ghost use Rattle.srt_types.specs.Items.{input_of, moment_of};
ghost use Rattle.srt_mailbox.specs.Cells.{AreEndsOf};
ghost use Rattle.srt_mailbox.specs.Identities.{identity_in};

use crate::gates::{Gate, Served, Visit};
use crate::tests::datagrams::{
    Coming, DELIVERY, Expected, publisher_answer, publisher_conclusion, publisher_data, replies,
    subscriber_conclusion,
};
use crate::{
    Account, BUFFER_ROOM, ClockEnd, Drain, EmptyPlace, Ingress, OfferFault, RouteCell, Serve,
    TakenElsewhere, open_route, settle,
};
use srt_route::{Reply, Route};
use srt_samples::first_difference;
use srt_types::{Access, Entry, Item, Mode, OpenFault, Peer, Rules, Turned};
use std::alloc::Global;
use std::process::Abort;
use std::sync::Wait;
use std::sync::atomic::{AtomicBool, Ordering};
use std::test::Fail;
use std::thread;
use std::thread::{Threads, join};

fn peer(port: u16) -> Peer {
    Peer {
        ip: [0, 0, 0, 0, 0, 0, 0, 0, 0, 0, 0xff, 0xff, 127, 0, 0, 1],
        port,
    }
}

/// The number of places of each queue.
const PLACES: u32 = 16;

/// The four ends of a route.
type Ends = (Ingress, ClockEnd, RouteCell, Drain);

fn entry(alloc: Global) -> Result<Entry, Fail> {
    Ok(Entry {
        name: String::from_str(alloc, "studio")?,
        mode: Mode::Live,
        latency_ms: 120,
        buffer: 1024,
        sessions: 5,
        inbox: PLACES,
        outbox: PLACES,
        access: Access::anyone(),
        rules: Rules::DRAFT,
    })
}

fn studio(alloc: Global) -> Result<Ends, Fail>
    ensures { IfOk result (λ r. AreEndsOf (identity_in r.2) r.0 r.1 r.3) }
{
    match open_route(alloc, &entry(alloc)?, 0) {
        Ok(ends) => Ok(ends),
        Err(_) => Err(Fail::from("the route opens")),
    }
}

/// A gate that always permits steps, or never does.
#[derive(Drop)]
struct Fixed {
    passes: bool,
    held: u64,
}

impl Fixed {
    fn open() -> Fixed {
        Fixed {
            passes: true,
            held: 0,
        }
    }

    fn shut() -> Fixed {
        Fixed {
            passes: false,
            held: 0,
        }
    }
}

impl Gate for Fixed {
    ghost use Rattle.std.specs.Prelude.{None};

    ghost held = { λ gate. gate.held };

    ghost requested = { λ _. None };

    fn allows(&mut self, _route: usize) -> bool {
        if !self.passes {
            self.held = self.held.saturating_add(1);
        }
        self.passes
    }

    fn is_elsewhere(&self, _route: usize, _taken: TakenElsewhere) {}

    fn seats_nobody(&self, _empty: EmptyPlace) {}

    fn held(&self) -> u64 {
        self.held
    }
}

const APPLIED: Served = Served::Turned(Turned::Applied);

const MOVED: Served = Served::Turned(Turned::Moved);

const BLOCKED: Served = Served::Turned(Turned::Blocked);

const IDLE: Served = Served::Turned(Turned::Idle);

/// Serves the route once for each of these outcomes, and asserts it.
fn assert_served<C: Serve>(rt: &(impl Wait + Abort), cell: &C, wanted: &[Served]) {
    let mut gate = Fixed::open();
    for served in wanted {
        assert_eq!(rt; cell.serve(rt, &mut gate), *served);
    }
}

/// Asserts that the drain's next reply is this one.
fn assert_drained(
    rt: &(impl AllocGlobal + Wait + Abort),
    drain: &mut Drain,
    wanted: Expected<'_>,
) -> Result<(), Fail>
    ensures { drain.new.queue ≡ drain.old.queue }
{
    assert!(rt; drain.is_empty().is_none());
    assert!(rt; drain.take(rt).is_ok());
    assert_at_hand(rt, drain, wanted)
}

/// Asserts the peer and the bytes of the reply that was drained last.
fn assert_at_hand(
    rt: &(impl AllocGlobal + Abort),
    drain: &Drain,
    wanted: Expected<'_>,
) -> Result<(), Fail> {
    let bytes = wanted.sample.bytes(rt.alloc())?;
    let reply = drain.reply();
    assert!(rt; reply.peer == peer(wanted.port));
    assert_eq!(rt; first_difference(reply.packet.bytes(), &bytes), None);
    Ok(())
}

fn tick<R: Wait>(rt: &R, clock: &mut ClockEnd, moment: u64) -> bool
    requires { moment < 2 ^ 62 }
    ensures { clock.new.queue ≡ clock.old.queue }
{
    clock.offer(rt, Item::Tick { moment }).is_ok()
}

/// Offers a datagram n times, and asserts that each is accepted.
fn offer_times(
    rt: &(impl AllocGlobal + Wait + Abort),
    ingress: &mut Ingress,
    coming: Coming<'_>,
    n: usize,
) -> Result<(), Fail>
    ensures { ingress.new.queue ≡ ingress.old.queue }
{
    for turn in 0..n {
        assert!(rt;
            ingress.offer(rt, coming.item(rt.alloc())?).is_ok(),
            "{turn}"
        );
    }
    Ok(())
}

/// Drains n replies, and asserts that each is this one.
fn drain_times(
    rt: &(impl AllocGlobal + Wait + Abort),
    drain: &mut Drain,
    wanted: Expected<'_>,
    n: usize,
) -> Result<(), Fail>
    ensures { drain.new.queue ≡ drain.old.queue }
{
    for turn in 0..n {
        assert_drained(rt, drain, wanted)?;
    }
    Ok(())
}

/// Drains a reply for each of these, and asserts that it is this one.
fn drain_each(
    rt: &(impl AllocGlobal + Wait + Abort),
    drain: &mut Drain,
    rows: &[Expected<'_>],
) -> Result<(), Fail> {
    for wanted in rows {
        assert_drained(rt, drain, *wanted)?;
    }
    Ok(())
}

/// Returns the final counters of a route whose ends are from one opening.
fn settled<R: Wait>(
    rt: &R,
    ingress: Ingress,
    clock: ClockEnd,
    cell: RouteCell,
    drain: Drain,
) -> Result<Account, Fail>
    requires { AreEndsOf (identity_in cell) ingress clock drain }
{
    match settle(rt, ingress, clock, cell, drain) {
        Ok(account) => Ok(account),
        Err(_) => Err(Fail::from("nobody has the route")),
    }
}

#[test]
fn a_held_route_makes_no_turn(rt: HostRuntime) -> Result<(), Fail> {
    let (_ingress, mut clock, cell, mut drain) = studio(rt.alloc())?;
    let mut shut = Fixed::shut();
    assert!(rt; tick(&rt, &mut clock, 5));
    assert_eq!(rt; cell.serve(&rt, &mut shut), Served::GateRefused);
    assert_eq!(rt; shut.held(), 1);
    assert_served(&rt, &cell, &[APPLIED, IDLE]);
    assert!(rt; drain.take(&rt).is_err());
    Ok(())
}

/// Makes a batch of at most this many steps with an open gate, and asserts the steps, the replies that were moved and
/// the end.
fn assert_visited<C: Serve>(
    rt: &(impl Wait + Abort),
    cell: &C,
    most: u32,
    wanted: (u32, u32, Option<Served>),
) {
    let (turns, moved, end) = wanted;
    let visit = cell.visit(rt, &mut Fixed::open(), most);
    assert_eq!(rt; visit, Visit { turns, moved, end });
}

/// A batch ends where there is no work, at a full outbox of 16 places, at a closed gate, or after the maximum number
/// of steps.
#[test]
fn a_visit_makes_the_turns_that_it_may(rt: HostRuntime) -> Result<(), Fail> {
    let (mut ingress, _clock, cell, mut drain) = studio(rt.alloc())?;
    let mut shut = Fixed::shut();
    offer_times(&rt, &mut ingress, publisher_conclusion(), 2)?;
    let held = cell.visit(&rt, &mut shut, 64);
    assert!(rt; held.turns == 0 && held.end == Some(Served::GateRefused) && shut.held() == 1);
    assert_visited(&rt, &cell, 0, (0, 0, None));
    assert_visited(&rt, &cell, 3, (3, 1, None));
    assert_visited(&rt, &cell, 64, (1, 1, Some(IDLE)));
    drain_times(&rt, &mut drain, publisher_answer(), 2)?;
    offer_times(&rt, &mut ingress, publisher_conclusion(), 16)?;
    assert_visited(&rt, &cell, 64, (32, 16, Some(IDLE)));
    offer_times(&rt, &mut ingress, publisher_conclusion(), 1)?;
    assert_visited(&rt, &cell, 64, (1, 0, Some(BLOCKED)));
    drain_times(&rt, &mut drain, publisher_answer(), 16)?;
    assert_visited(&rt, &cell, 1, (1, 1, None));
    drain_times(&rt, &mut drain, publisher_answer(), 1)?;
    assert!(rt; drain.is_empty().is_some());
    assert!(rt; drain.take(&rt).is_err());
    Ok(())
}

/// Returns a route with an outbox of 64 places. It has 71 boxes, which return four at a time.
fn wide_studio(alloc: Global) -> Result<Ends, Fail> {
    let mut wide = entry(alloc)?;
    wide.outbox = 64;
    match open_route(alloc, &wide, 0) {
        Ok(ends) => Ok(ends),
        Err(_) => Err(Fail::from("the route opens")),
    }
}

/// Offers a conclusion n times, serves the route, and drains this many answers.
fn go_round(
    rt: &(impl AllocGlobal + Wait + Abort),
    ingress: &mut Ingress,
    cell: &RouteCell,
    drain: &mut Drain,
    counts: (usize, usize),
) -> Result<(), Fail> {
    offer_times(rt, ingress, publisher_conclusion(), counts.0)?;
    cell.visit(rt, &mut Fixed::open(), 64);
    drain_times(rt, drain, publisher_answer(), counts.1)
}

/// 300 replies are drained five at a time; then 64 fill the outbox before the first of them is drained.
#[test]
fn boxes_go_round_in_batches(rt: HostRuntime) -> Result<(), Fail> {
    let (mut ingress, _clock, cell, mut drain) = wide_studio(rt.alloc())?;
    for _ in 0..60 {
        go_round(&rt, &mut ingress, &cell, &mut drain, (5, 5))?;
    }
    for _ in 0..4 {
        go_round(&rt, &mut ingress, &cell, &mut drain, (16, 0))?;
    }
    go_round(&rt, &mut ingress, &cell, &mut drain, (0, 64))
}

/// Offers a conclusion whose body has room for any packet's, serves the route, and drains the answer.
fn answer_with_room(
    rt: &(impl AllocGlobal + Wait + Abort),
    ingress: &mut Ingress,
    cell: &RouteCell,
    drain: &mut Drain,
) -> Result<(), Fail> {
    let coming = publisher_conclusion();
    let bytes = coming.sample.bytes(rt.alloc())?;
    if bytes.len() < 16 {
        return Err(Fail::from("a header"));
    }
    let mut head = [0u8; 16];
    head.copy_from_slice(&bytes[..16]);
    let mut body = Vec::with_capacity(rt.alloc(), BUFFER_ROOM)?;
    body.extend_from_slice(&bytes[16..])?;
    let offered = ingress.offer_datagram(rt, peer(coming.port), 1_000_000, head, body);
    assert!(rt; offered.is_ok());
    cell.visit(rt, &mut Fixed::open(), 64);
    assert_drained(rt, drain, publisher_answer())
}

#[test]
fn a_body_with_room_comes_back_with_a_reply(rt: HostRuntime) -> Result<(), Fail> {
    let (mut ingress, _clock, cell, mut drain) = studio(rt.alloc())?;
    answer_with_room(&rt, &mut ingress, &cell, &mut drain)?;
    let Some(body) = drain.take_buffer() else {
        return Err(Fail::from("a body"));
    };
    assert!(rt; body.capacity() >= BUFFER_ROOM);
    assert!(rt; drain.take_buffer().is_none());
    offer_times(&rt, &mut ingress, publisher_conclusion(), 1)?;
    cell.visit(&rt, &mut Fixed::open(), 64);
    assert_drained(&rt, &mut drain, publisher_answer())?;
    assert!(rt; drain.take_buffer().is_none());
    Ok(())
}

/// Asserts that a route of this entry and this index isn't opened, and by which fault.
fn assert_refused(rt: &(impl AllocGlobal + Abort), entry: &Entry, index: usize, fault: OpenFault) {
    assert!(rt; matches!(&open_route(rt.alloc(), entry, index), Err(found) if *found == fault));
}

#[test]
fn an_entry_out_of_its_limits_is_refused(rt: HostRuntime) -> Result<(), Fail> {
    let alloc = rt.alloc();
    let mut late = entry(alloc)?;
    late.latency_ms = 10;
    let mut nameless = entry(alloc)?;
    nameless.name = String::new(alloc);
    assert_refused(&rt, &late, 0, OpenFault::Limits);
    assert_refused(&rt, &entry(alloc)?, 511, OpenFault::Limits);
    assert_refused(&rt, &nameless, 511, OpenFault::Names);
    Ok(())
}

/// Whether this is the data packet, with its sender and its time.
fn is_data(alloc: Global, item: &Item) -> Result<bool, Fail> {
    let offered = publisher_data();
    let bytes = offered.sample.bytes(alloc)?;
    match item {
        Item::Datagram {
            peer: from,
            moment,
            head,
            body,
        } => {
            let is_whole = bytes.len() == 18
                && &head[..] == &bytes[..16]
                && body.as_slice() == &bytes[16..];
            Ok(is_whole && *from == peer(offered.port) && *moment == offered.moment)
        }
        _ => Ok(false),
    }
}

/// Offers a datagram to a full inbox, asserts that it is returned unchanged, and after a step offers it again, which
/// the inbox accepts.
fn assert_goes_in_after_a_turn(
    rt: &(impl AllocGlobal + Wait + Abort),
    ingress: &mut Ingress,
    cell: &RouteCell,
) -> Result<(), Fail> {
    let alloc = rt.alloc();
    let item = publisher_data().item(alloc)?;
    let back = match ingress.offer(rt, item) {
        Err(OfferFault { item, evidence: _ }) => item,
        Ok(()) => return Err(Fail::from("the inbox is full")),
    };
    assert!(rt; is_data(alloc, &back)?);
    assert_served(rt, cell, &[APPLIED]);
    assert!(rt; ingress.offer(rt, back).is_ok());
    Ok(())
}

/// An inbox of 16 places accepts 16 messages and refuses one more, of the poller and of the clock; after a step it
/// accepts the returned one, and is full again.
fn assert_full_inbox(
    rt: &(impl AllocGlobal + Wait + Abort),
    ingress: &mut Ingress,
    clock: &mut ClockEnd,
    cell: &RouteCell,
) -> Result<(), Fail> {
    offer_times(rt, ingress, publisher_conclusion(), 1)?;
    offer_times(rt, ingress, publisher_data(), 1)?;
    offer_times(rt, ingress, subscriber_conclusion(), 1)?;
    for _ in 0..13 {
        assert!(rt; tick(rt, clock, DELIVERY));
    }
    assert!(rt; !tick(rt, clock, DELIVERY));
    assert_goes_in_after_a_turn(rt, ingress, cell)?;
    assert!(rt; !tick(rt, clock, DELIVERY));
    Ok(())
}

/// Serves the route until the stream's messages are processed, and asserts each reply.
fn assert_stream(
    rt: &(impl AllocGlobal + Wait + Abort),
    cell: &RouteCell,
    drain: &mut Drain,
) -> Result<(), Fail> {
    assert_served(
        rt,
        cell,
        &[MOVED, APPLIED, APPLIED, MOVED, MOVED, APPLIED, MOVED, MOVED],
    );
    drain_each(rt, drain, &replies())?;
    assert_served(rt, cell, &[APPLIED; 13]);
    assert_served(rt, cell, &[IDLE]);
    assert!(rt; drain.take(rt).is_err());
    Ok(())
}

#[test]
fn what_meets_a_full_inbox_comes_back(rt: HostRuntime) -> Result<(), Fail> {
    let (mut ingress, mut clock, cell, mut drain) = studio(rt.alloc())?;
    assert_full_inbox(&rt, &mut ingress, &mut clock, &cell)?;
    assert_stream(&rt, &cell, &mut drain)
}

/// The drain is slow: 16 replies fill the outbox, one waits, and none is lost or duplicated.
fn assert_full_outbox(
    rt: &(impl AllocGlobal + Wait + Abort),
    ingress: &mut Ingress,
    clock: &mut ClockEnd,
    cell: &RouteCell,
    drain: &mut Drain,
) -> Result<(), Fail>
    ensures ingress { ingress.new.queue ≡ ingress.old.queue }
    ensures clock { clock.new.queue ≡ clock.old.queue }
    ensures drain { drain.new.queue ≡ drain.old.queue }
{
    offer_times(rt, ingress, publisher_conclusion(), 16)?;
    for _ in 0..16 {
        assert_served(rt, cell, &[APPLIED, MOVED]);
    }
    offer_times(rt, ingress, publisher_conclusion(), 2)?;
    assert_served(rt, cell, &[APPLIED, BLOCKED, BLOCKED]);
    assert!(rt; tick(rt, clock, 1_000_000));
    drain_times(rt, drain, publisher_answer(), 16)?;
    assert_served(rt, cell, &[MOVED, APPLIED, MOVED, APPLIED, IDLE]);
    drain_times(rt, drain, publisher_answer(), 2)
}

#[test]
fn a_full_outbox_blocks_the_route(rt: HostRuntime) -> Result<(), Fail> {
    let (mut ingress, mut clock, cell, mut drain) = studio(rt.alloc())?;
    assert_full_outbox(&rt, &mut ingress, &mut clock, &cell, &mut drain)?;
    assert!(rt; drain.take(&rt).is_err());
    let account = settled(&rt, ingress, clock, cell, drain)?;
    assert_eq!(rt;
        account,
        Account {
            taken: 19,
            left: 0,
            waiting: 0,
            queued: 0,
            drained: 18
        }
    );
    Ok(())
}

/// Offers a conclusion, serves the route a few times, drains n replies, and returns the route's final counters.
fn account_after(
    rt: &(impl AllocGlobal + Wait + Abort),
    turns: usize,
    n: usize,
) -> Result<Account, Fail> {
    let (mut ingress, clock, cell, mut drain) = studio(rt.alloc())?;
    offer_times(rt, &mut ingress, publisher_conclusion(), 1)?;
    for _ in 0..turns {
        cell.serve(rt, &mut Fixed::open());
    }
    drain_times(rt, &mut drain, publisher_answer(), n)?;
    settled(rt, ingress, clock, cell, drain)
}

/// Number of steps of a route with one message, number of drained replies, and its final counters then.
type Accounting = (usize, usize, Account);

const ACCOUNTINGS: [Accounting; 4] = [
    (
        0,
        0,
        Account {
            taken: 0,
            left: 1,
            waiting: 0,
            queued: 0,
            drained: 0,
        },
    ),
    (
        1,
        0,
        Account {
            taken: 1,
            left: 0,
            waiting: 1,
            queued: 0,
            drained: 0,
        },
    ),
    (
        2,
        0,
        Account {
            taken: 1,
            left: 0,
            waiting: 0,
            queued: 1,
            drained: 0,
        },
    ),
    (
        2,
        1,
        Account {
            taken: 1,
            left: 0,
            waiting: 0,
            queued: 0,
            drained: 1,
        },
    ),
];

fn assert_accounts(
    rt: &(impl AllocGlobal + Wait + Abort),
    rows: &[Accounting],
) -> Result<(), Fail> {
    for (turns, n, wanted) in rows {
        assert_eq!(rt; account_after(rt, *turns, *n)?, *wanted);
    }
    Ok(())
}

/// The final counters count each message and each reply where it is.
#[test]
fn an_account_tells_where_all_is(rt: HostRuntime) -> Result<(), Fail> {
    assert_accounts(&rt, &ACCOUNTINGS)
}

/// A route that received one of two ticks is finalised by `TakenRoute::settle`. A tick causes no reply.
#[test]
fn an_account_tells_an_item_without_a_reply(rt: HostRuntime) -> Result<(), Fail> {
    let (ingress, mut clock, cell, drain) = studio(rt.alloc())?;
    assert!(rt; tick(&rt, &mut clock, 5));
    assert!(rt; tick(&rt, &mut clock, 6));
    assert_served(&rt, &cell, &[APPLIED]);
    let account = match cell.into_route() {
        Ok(route) => route.settle(&rt, ingress, clock, drain),
        Err(_) => return Err(Fail::from("nobody has the route")),
    };
    assert_eq!(rt;
        account,
        Account {
            taken: 1,
            left: 1,
            waiting: 0,
            queued: 0,
            drained: 0
        }
    );
    Ok(())
}

/// Serves a route until the flag is set, at most a million times.
fn serve_until<C: Serve, R: Wait>(rt: &R, cell: &C, stop: &AtomicBool) {
    let mut gate = Fixed::open();
    for _ in 0..1_000_000 {
        if stop.load(Ordering::SeqCst) {
            return;
        }
        match cell.serve(rt, &mut gate) {
            Served::Turned(Turned::Applied) | Served::Turned(Turned::Moved) => {}
            _ => thread::yield_now(),
        }
    }
}

/// Waits for the next reply.
fn await_reply<R: Wait>(rt: &R, drain: &mut Drain) -> Result<(), Fail> {
    for _ in 0..10_000_000 {
        if drain.take(rt).is_ok() {
            return Ok(());
        }
        thread::yield_now();
    }
    Err(Fail::from("a reply comes"))
}

/// The same route without queues, and a box for its replies.
#[derive(Drop)]
struct Alone {
    route: Route,
    place: Box<Reply>,
}

impl Alone {
    fn open(alloc: Global) -> Result<Alone, Fail> {
        match Route::open(alloc, &entry(alloc)?, 0) {
            Ok(route) => Ok(Alone {
                route,
                place: Box::new(alloc, Reply::blank())?,
            }),
            Err(_) => Err(Fail::from("the route opens")),
        }
    }

    /// Processes a message, and returns the number of replies.
    fn apply<R: Abort>(&mut self, rt: &R, item: &Item) -> usize
        requires timely { moment_of (input_of item.now) < 2 ^ 62 }
    {
        assert!(rt; !self.route.waits());
        self.route.step(item)
    }

    /// Whether its next reply is the one that was drained last.
    fn replies(&mut self, drain: &Drain) -> bool {
        let reply = drain.reply();
        self.route.next_reply(&mut self.place)
            && self.place.peer == reply.peer
            && self.place.packet.bytes() == reply.packet.bytes()
    }
}

/// Processes a datagram at the route alone, waits for as many replies of the other one, and asserts that they are the
/// same. Returns their number.
fn await_the_same(
    rt: &(impl AllocGlobal + Wait + Abort),
    alone: &mut Alone,
    drain: &mut Drain,
    item: &Item,
) -> Result<usize, Fail>
    requires timely { moment_of (input_of item.now) < 2 ^ 62 }
{
    let count = alone.apply(rt, item);
    for _ in 0..count {
        await_reply(rt, drain)?;
        assert!(rt; alone.replies(drain));
    }
    Ok(count)
}

/// Offers a datagram n times, and asserts that each causes the replies of the route alone, and this many.
fn offer_and_compare(
    rt: &(impl AllocGlobal + Wait + Abort),
    ingress: &mut Ingress,
    drain: &mut Drain,
    alone: &mut Alone,
    coming: Coming<'_>,
    counts: (usize, usize),
) -> Result<(), Fail> {
    let (n, replies) = counts;
    offer_times(rt, ingress, coming, n)?;
    for _ in 0..n {
        let item = coming.item(rt.alloc())?;
        assert_eq!(rt; await_the_same(rt, alone, drain, &item)?, replies);
    }
    Ok(())
}

/// Offers the stream's messages, then the publisher's conclusion 800 times, and asserts that the replies are those of
/// the route alone.
fn offer_and_await(
    rt: &(impl AllocGlobal + Wait + Abort),
    ingress: &mut Ingress,
    drain: &mut Drain,
) -> Result<(), Fail> {
    let mut alone = Alone::open(rt.alloc())?;
    let publishes = publisher_conclusion();
    let requests = subscriber_conclusion();
    offer_and_compare(rt, ingress, drain, &mut alone, publishes, (1, 1))?;
    offer_and_compare(rt, ingress, drain, &mut alone, publisher_data(), (1, 0))?;
    offer_and_compare(rt, ingress, drain, &mut alone, requests, (1, 2))?;
    let late = Item::Tick { moment: DELIVERY };
    assert!(rt; ingress.offer(rt, Item::Tick { moment: DELIVERY }).is_ok());
    assert_eq!(rt; await_the_same(rt, &mut alone, drain, &late)?, 2);
    for _ in 0..100 {
        offer_and_compare(rt, ingress, drain, &mut alone, publishes, (8, 1))?;
    }
    Ok(())
}

/// Two threads serve the route while this one offers and drains.
fn serve_by_two<C: Serve + Sync, R: AllocGlobal + Threads + Wait + Abort + Sync>(
    rt: &R,
    ingress: &mut Ingress,
    cell: &C,
    drain: &mut Drain,
) -> Result<(), Fail> {
    let stop = AtomicBool::new(false);
    let stopped = &stop;
    let (_, (_, offered)) = join(
        rt,
        || serve_until(rt, cell, stopped),
        || {
            join(
                rt,
                || serve_until(rt, cell, stopped),
                || {
                    let offered = offer_and_await(rt, ingress, drain);
                    stopped.store(true, Ordering::SeqCst);
                    offered
                },
            )
        },
    );
    offered
}

/// Whichever of two workers makes a step, the replies are those of the route alone, in order.
#[test]
fn two_workers_serve_as_one(rt: HostRuntime) -> Result<(), Fail> {
    let (mut ingress, _clock, cell, mut drain) = studio(rt.alloc())?;
    serve_by_two(&rt, &mut ingress, &cell, &mut drain)?;
    assert!(rt; drain.take(&rt).is_err());
    Ok(())
}

/// A gate that waits until another thread has received its reply.
#[derive(Drop)]
struct Staying<'a> {
    entered: &'a AtomicBool,
    answered: &'a AtomicBool,
}

/// Waits for the flag, for a limited number of attempts.
fn wait_for(flag: &AtomicBool) {
    for _ in 0..1_000_000 {
        if flag.load(Ordering::SeqCst) {
            return;
        }
        thread::yield_now();
    }
}

impl Gate for Staying<'_> {
    ghost use Rattle.std.specs.Prelude.{None};

    ghost held = { λ _. 0 };

    ghost requested = { λ _. None };

    fn allows(&mut self, _route: usize) -> bool {
        self.entered.store(true, Ordering::SeqCst);
        wait_for(self.answered);
        true
    }

    fn is_elsewhere(&self, _route: usize, _taken: TakenElsewhere) {}

    fn seats_nobody(&self, _empty: EmptyPlace) {}

    fn held(&self) -> u64 {
        0
    }
}

/// Returns the outcome of a worker that waits in its gate, and the outcomes of another worker meanwhile: a step and a
/// batch at the same route, and a step at another one.
fn serve_beside<C: Serve + Sync, R: Threads + Wait + Sync>(
    rt: &R,
    cell: &C,
    other: &C,
) -> (Served, Served, Visit, Served) {
    let inside = AtomicBool::new(false);
    let done = AtomicBool::new(false);
    let (entered, answered) = (&inside, &done);
    let (stayed, (busy, visit, free)) = join(
        rt,
        || cell.serve(rt, &mut Staying { entered, answered }),
        || {
            wait_for(entered);
            let busy = cell.serve(rt, &mut Fixed::open());
            let visit = cell.visit(rt, &mut Fixed::open(), 64);
            let free = other.serve(rt, &mut Fixed::open());
            answered.store(true, Ordering::SeqCst);
            (busy, visit, free)
        },
    );
    (stayed, busy, visit, free)
}

/// A route that only one thread serves is never busy. A route that another thread has claimed is, and a worker can
/// continue with another route.
#[test]
fn nobody_waits_for_a_route(rt: HostRuntime) -> Result<(), Fail> {
    let (_ingress, mut clock, cell, _drain) = studio(rt.alloc())?;
    let (_other_ingress, mut other_clock, other, _other_drain) = studio(rt.alloc())?;
    for _ in 0..1_000 {
        assert!(rt; tick(&rt, &mut clock, 5));
        assert_served(&rt, &cell, &[APPLIED, IDLE]);
    }
    assert!(rt; tick(&rt, &mut clock, 5));
    assert!(rt; tick(&rt, &mut other_clock, 5));
    let served = serve_beside(&rt, &cell, &other);
    let passed_over = Visit {
        turns: 0,
        moved: 0,
        end: Some(Served::ClaimedElsewhere),
    };
    assert!(rt; served == (APPLIED, Served::ClaimedElsewhere, passed_over, APPLIED));
    assert_served(&rt, &cell, &[IDLE]);
    assert_served(&rt, &other, &[IDLE]);
    Ok(())
}
