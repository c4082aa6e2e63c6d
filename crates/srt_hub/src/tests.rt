//! The hub over a small lobby, which classifies by the first byte, and a small route, which replies twice to each item.

ghost use Rattle.std.specs.Prelude.{◌≡◌, ℕ, ◌+◌, ◌-◌, ◌≤◌, ◌<◌, [], ◌∷◌, length, drop, replicate, slice_index, if◌then◌else◌, nat_lt, refl};
ghost use Rattle.srt_packet.specs.declared.writing.Body.TheVariants.{KeepAlive};
ghost use Rattle.srt_packet.specs.Text.{text};
ghost use Rattle.srt_route.specs.Written.{written};
ghost use Rattle.srt_hub.specs.Calls.{datagram};

use crate::{Arrived, Cause, Class, Hub, Lobby, OutOfMemory, Reply, RouteStep, Ticked};
use srt_cookie::Secret;
use srt_lobby::Names;
use srt_packet::{Body, Packet};
use srt_samples::first_difference;
use srt_types::{Access, Entry, Item, Mode, OpenFault, Peer, Rules, Turned};
use std::alloc::Global;
use std::process::Abort;
use std::test::Fail;

/// Classifies by the first byte.
#[derive(Drop)]
struct FirstByte {
    routes: usize,
}

impl Lobby for FirstByte {
    ghost use Rattle.srt_lobby.specs.declared.classes.Class.TheVariants.{Answer, Route as ForRoute, Dropped};
    ghost use Rattle.srt_lobby.specs.declared.classes.Cause.TheVariants.{Packet as NoPacket};
    ghost use Rattle.std.proofs.Common.{arith};
    ghost use Rattle.std.proofs.lemmas.Bool.Decides.{nat_tests};

    ghost class = { λ secret names d moment. (if nat_lt (length d.bytes) 16 then Dropped NoPacket
        else (if nat_lt (slice_index d.bytes 0) (length names) then ForRoute (slice_index d.bytes 0)
        else Answer (replicate 64 (slice_index d.bytes 0)))) };

    ghost knows = { λ lobby secret names. lobby.routes ≡ length names };

    ghost named = { λ secret names d moment r h. Prim.grind (arith, nat_tests) };

    fn open(alloc: Global, _secret: Secret, entries: &[Entry]) -> Result<Self, OpenFault> {
        Names::open(alloc, entries)?;
        Ok(FirstByte {
            routes: entries.len(),
        })
    }

    fn classify(&self, _peer: Peer, bytes: &[u8], _moment: u64) -> Class {
        if bytes.len() < 16 {
            return Class::Dropped(Cause::Packet);
        }
        if (bytes[0] as usize) < self.routes {
            Class::Route(bytes[0] as usize)
        } else {
            Class::Answer([bytes[0]; 64])
        }
    }
}

const CALLER: Peer = Peer {
    ip: [9; 16],
    port: 7,
};

/// A KEEPALIVE with this timestamp.
fn keep_alive(stamp: u32) -> Reply
    ensures { written result ≡ datagram (record { ip = replicate 16 9; port = 7 }) (text (record { stamp = stamp; dest = 5; body = KeepAlive })) }
{
    let mut reply = Reply::blank();
    reply.peer = CALLER;
    reply.packet.write(&Packet {
        stamp,
        dest: 5,
        body: Body::KeepAlive,
    });
    reply
}

/// Sends two packets for each item.
#[derive(Drop)]
struct Twice {
    left: u8,
    ghost few: { left ≤ 2 },
}

impl RouteStep for Twice {
    ghost reply = { λ e index items.
        datagram (record { ip = replicate 16 9; port = 7 }) (text (record { stamp = 1; dest = 5; body = KeepAlive }))
        ∷ datagram (record { ip = replicate 16 9; port = 7 }) (text (record { stamp = 2; dest = 5; body = KeepAlive })) ∷ [] };

    ghost stands = { λ route e index items. Unit {0} };

    ghost waiting = { λ route. drop (2 - route.left)
        (datagram (record { ip = replicate 16 9; port = 7 }) (text (record { stamp = 1; dest = 5; body = KeepAlive }))
        ∷ datagram (record { ip = replicate 16 9; port = 7 }) (text (record { stamp = 2; dest = 5; body = KeepAlive })) ∷ []) };

    fn open(_alloc: Global, _entry: &Entry, _index: usize) -> Result<Self, OpenFault> {
        Ok(Twice { left: 0 })
    }

    fn step(&mut self, _item: Item) -> usize {
        self.left = 2;
        2
    }

    fn waits(&self) -> bool {
        self.left > 0
    }

    fn next_reply(&mut self, place: &mut Box<Reply>) -> bool {
        if self.left == 2 {
            self.left = 1;
            **place = keep_alive(1);
            return true;
        }
        if self.left == 1 {
            self.left = 0;
            **place = keep_alive(2);
            return true;
        }
        false
    }
}

/// A live route with the smallest queues.
pub(crate) fn live_entry(alloc: Global, name: &str) -> Result<Entry, Fail> {
    Ok(Entry {
        name: String::from_str(alloc, name)?,
        mode: Mode::Live,
        latency_ms: 120,
        buffer: 1024,
        sessions: 5,
        inbox: 16,
        outbox: 16,
        access: Access::anyone(),
        rules: Rules::DRAFT,
    })
}

fn two_routes(alloc: Global) -> Result<Hub<Twice, FirstByte>, Fail> {
    let entries = vec![in alloc; live_entry(alloc, "studio")?, live_entry(alloc, "files")?]?;
    let hub = Hub::open(alloc, Secret::new([7; 32]), &entries);
    Ok(hub.ok().ok_or("a hub")?)
}

/// The bytes of a KEEPALIVE with timestamp 1 and destination 5, and with timestamp 2.
const FIRST: [u8; 16] = [0x80, 1, 0, 0, 0, 0, 0, 0, 0, 0, 0, 1, 0, 0, 0, 5];

const SECOND: [u8; 16] = [0x80, 1, 0, 0, 0, 0, 0, 0, 0, 0, 0, 2, 0, 0, 0, 5];

/// The results of turns of a route with one item: it is processed, its two replies are moved, and nothing is left.
const TWO_MOVED_AND_IDLE: [Turned; 4] = [
    Turned::Applied,
    Turned::Moved,
    Turned::Moved,
    Turned::Idle,
];

/// Asserts the results of turns of a route, one after the other.
pub(crate) fn assert_turns<R: RouteStep, L: Lobby>(
    rt: &impl Abort,
    hub: &mut Hub<R, L>,
    route: usize,
    turns: &[Turned],
) {
    for turned in turns {
        assert!(rt; route < hub.routes());
        assert_eq!(rt; hub.turn(route), *turned);
    }
}

/// Asserts the receiver and the bytes of the next datagram that a route sends.
pub(crate) fn assert_sends<R: RouteStep, L: Lobby>(
    rt: &impl Abort,
    hub: &mut Hub<R, L>,
    route: usize,
    to: Peer,
    bytes: &[u8],
) {
    let mut out = [0; 1472];
    assert!(rt; route < hub.routes());
    match hub.send(route, &mut out) {
        Some((peer, len)) => {
            assert!(rt; peer == to);
            assert_eq!(rt; first_difference(&out[..len], bytes), None);
        }
        None => assert!(rt; false, "nothing is sent"),
    }
}

/// Asserts that a route has nothing to send.
pub(crate) fn assert_sends_nothing<R: RouteStep, L: Lobby>(
    rt: &impl Abort,
    hub: &mut Hub<R, L>,
    route: usize,
) {
    let mut out = [0; 1472];
    assert!(rt; route < hub.routes());
    assert!(rt; hub.send(route, &mut out).is_none());
}

/// Asserts that of 1000 copies of this datagram at this time in seconds, the inbox of route 1 accepts 16.
pub(crate) fn assert_floods<R: RouteStep, L: Lobby>(
    rt: &(impl AllocGlobal + Abort),
    hub: &mut Hub<R, L>,
    peer: Peer,
    seconds: u32,
    bytes: &[u8],
) -> Result<(), Fail> {
    let moment = u64::from(seconds) * 1_000_000;
    let mut accepted = 0u32;
    let mut full = 0u32;
    for _ in 0..1000 {
        match hub.arrive(rt.alloc(), peer, bytes, moment) {
            Ok(Arrived::Accepted(1)) => accepted = accepted.wrapping_add(1),
            Ok(Arrived::Full(1)) => full = full.wrapping_add(1),
            _ => return Err(Fail::from("another answer")),
        }
    }
    assert_eq!(rt; (accepted, full), (16, 984));
    Ok(())
}

/// Asserts the result of a datagram from the caller.
fn assert_arrives(
    rt: &(impl AllocGlobal + Abort),
    hub: &mut Hub<Twice, FirstByte>,
    bytes: &[u8],
    becomes: Arrived,
) {
    assert_eq!(rt; hub.arrive(rt.alloc(), CALLER, bytes, 1), Ok(becomes));
}

/// Asserts the result of a tick of a route.
fn assert_ticks(rt: &impl Abort, hub: &mut Hub<Twice, FirstByte>, route: usize, becomes: Ticked) {
    assert!(rt; route < hub.routes());
    assert_eq!(rt; hub.tick(route, 2), becomes);
}

#[test]
fn arrivals_and_ticks_become_datagrams(rt: HostRuntime) -> Result<(), Fail> {
    let mut hub = two_routes(rt.alloc())?;
    assert_eq!(rt; hub.routes(), 2);
    assert_arrives(&rt, &mut hub, &[0; 15], Arrived::Dropped(Cause::Packet));
    assert_arrives(&rt, &mut hub, &[9; 16], Arrived::Answer([9; 64]));
    assert_arrives(&rt, &mut hub, &[0; 17], Arrived::Accepted(0));
    assert_ticks(&rt, &mut hub, 1, Ticked::Accepted);
    for route in 0..2 {
        assert_sends_nothing(&rt, &mut hub, route);
        assert_turns(&rt, &mut hub, route, &TWO_MOVED_AND_IDLE);
        assert_sends(&rt, &mut hub, route, CALLER, &FIRST);
        assert_sends(&rt, &mut hub, route, CALLER, &SECOND);
        assert_sends_nothing(&rt, &mut hub, route);
    }
    Ok(())
}

/// A flood of one route fills that route's inbox, and the other route continues as without the flood.
#[test]
fn a_flood_stays_in_its_own_inbox(rt: HostRuntime) -> Result<(), Fail> {
    let mut hub = two_routes(rt.alloc())?;
    let mut flood = [0; 17];
    flood[0] = 1;
    assert_arrives(&rt, &mut hub, &[0; 17], Arrived::Accepted(0));
    assert_floods(&rt, &mut hub, CALLER, 0, &flood)?;
    assert_eq!(rt; hub.routes(), 2);
    assert_ticks(&rt, &mut hub, 1, Ticked::Full);
    assert_turns(&rt, &mut hub, 0, &[Turned::Applied, Turned::Moved]);
    assert_sends(&rt, &mut hub, 0, CALLER, &FIRST);
    Ok(())
}

/// If the outbox is full, turns are blocked, and nothing is dropped.
#[test]
fn a_full_outbox_blocks(rt: HostRuntime) -> Result<(), Fail> {
    let mut hub = two_routes(rt.alloc())?;
    for _ in 0..8 {
        assert_ticks(&rt, &mut hub, 0, Ticked::Accepted);
        assert_turns(&rt, &mut hub, 0, &TWO_MOVED_AND_IDLE[..3]);
    }
    assert_eq!(rt; hub.routes(), 2);
    assert_turns(&rt, &mut hub, 0, &[Turned::Idle]);
    assert_ticks(&rt, &mut hub, 0, Ticked::Accepted);
    assert_turns(
        &rt,
        &mut hub,
        0,
        &[Turned::Applied, Turned::Blocked, Turned::Blocked],
    );
    assert_sends(&rt, &mut hub, 0, CALLER, &FIRST);
    assert_turns(&rt, &mut hub, 0, &[Turned::Moved, Turned::Blocked]);
    Ok(())
}

/// The boxes of an outbox are used again: more replies are sent than there are boxes, in order.
#[test]
fn boxes_are_used_again(rt: HostRuntime) -> Result<(), Fail> {
    let mut hub = two_routes(rt.alloc())?;
    assert_eq!(rt; hub.routes(), 2);
    assert_ticks(&rt, &mut hub, 0, Ticked::Accepted);
    assert_turns(&rt, &mut hub, 0, &[Turned::Applied, Turned::Moved]);
    for _ in 0..20 {
        assert_turns(&rt, &mut hub, 0, &[Turned::Moved]);
        assert_sends(&rt, &mut hub, 0, CALLER, &FIRST);
        assert_ticks(&rt, &mut hub, 0, Ticked::Accepted);
        assert_turns(&rt, &mut hub, 0, &[Turned::Applied, Turned::Moved]);
        assert_sends(&rt, &mut hub, 0, CALLER, &SECOND);
    }
    Ok(())
}

/// If the copy can't be allocated, the same datagram can be offered again, and is then accepted as if it were the
/// first.
#[test]
fn a_refused_arrival_may_come_again(rt: HostRuntime) -> Result<(), Fail> {
    let alloc = rt.alloc();
    let mut hub = two_routes(alloc)?;
    let mut arrived = hub.arrive(alloc, CALLER, &[0; 17], 1);
    if arrived == Err(OutOfMemory) {
        arrived = hub.arrive(alloc, CALLER, &[0; 17], 1);
    }
    assert_eq!(rt; arrived, Ok(Arrived::Accepted(0)));
    assert_eq!(rt; hub.routes(), 2);
    assert_turns(&rt, &mut hub, 0, &TWO_MOVED_AND_IDLE);
    Ok(())
}
