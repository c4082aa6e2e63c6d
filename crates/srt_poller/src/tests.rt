//! Rounds over devices in memory and over a socket. What is expected was worked out from the rules by hand.

ghost use Rattle.std.specs.Prelude.{◌≡◌, ◌<◌, ◌≤◌, ◌^◌, IfOk, length};
ghost use Rattle.srt_lobby.specs.Names.{names_of};
ghost use Rattle.srt_poller.specs.Schedules.{AllDiffer};

mod asking;
mod changing;
mod copies;
mod datagrams;
mod faults;
mod hints;
mod late;
mod limits;
mod rounds;
mod stops;
mod strangers;
mod telling;
mod waits;

use crate::tests::datagrams::{
    CALLER, STUDIO, conclusion_of, induction_answer, induction_of, publisher_answer, refusal,
    standby_answer, stray_shutdown,
};
use crate::{
    BindFault, ClockScript, Ends, MioSource, MioWire, Polled, PollerTask, Pumping, Read, Report,
    ScriptDatagram, Sent, Signals, Source, SourceScript, SourceStep, Wire, WireScript, pump,
    pump_under,
};
use mio::net::UdpSocket;
use srt_cookie::Secret;
use srt_lobby::Names;
use srt_mailbox::{RouteCell, Serve, Served, Ungated, open_route};
use srt_samples::{Block, Sample, first_difference};
use srt_types::{Access, Entry, Mode, Peer, Rules, Schedule, Turned};
use std::alloc::Global;
use std::net::{Ipv4Addr, Net, SocketAddr, SocketAddrV4};
use std::process::Abort;
use std::sync::Wait;
use std::test::Fail;

/// The report of rounds that read an induction.
const ANSWERED: Report = Report {
    read: 1,
    answered: 1,
    sent: 1,
    ..Report::NOTHING
};

/// The bytes 0 to 31.
const SECRET: [u8; 32] = [
    0, 1, 2, 3, 4, 5, 6, 7, 8, 9, 10, 11, 12, 13, 14, 15, 16, 17, 18, 19, 20, 21, 22, 23, 24, 25,
    26, 27, 28, 29, 30, 31,
];

fn peer(port: u16) -> Peer {
    Peer {
        ip: [0, 0, 0, 0, 0, 0, 0, 0, 0, 0, 0xff, 0xff, 127, 0, 0, 1],
        port,
    }
}

/// This datagram comes from port 5000.
fn comes(alloc: Global, sample: Sample<'_>) -> Result<SourceStep, Fail> {
    Ok(SourceStep::Datagram(ScriptDatagram {
        peer: peer(5000),
        bytes: sample.bytes(alloc)?,
        moment: 1_000_000,
    }))
}

/// The routes' names, modes and buffers.
const ROUTES: [(&str, Mode, u32); 2] = [("studio", Mode::Live, 1024), ("files", Mode::Buffer, 32)];

fn entry(alloc: Global, route: &(&str, Mode, u32)) -> Result<Entry, Fail> {
    Ok(Entry {
        name: String::from_str(alloc, route.0)?,
        mode: route.1,
        latency_ms: 120,
        buffer: route.2,
        sessions: 5,
        inbox: 16,
        outbox: 16,
        access: Access::anyone(),
        rules: Rules::DRAFT,
    })
}

/// Two routes with these schedules: the poller's ends and the cells.
#[derive(Drop)]
struct Routes {
    schedules: [Schedule; 2],
    ends: [Ends; 2],
    cells: [RouteCell; 2],
}

/// The schedule of a route that is always open.
const ALWAYS: Schedule = Schedule {
    open_round: 0,
    close_round: None,
};

/// The names of these routes. The first is hidden if it opens in a later round than the first.
fn named(alloc: Global, entries: &[Entry], first: Schedule) -> Result<Names, Fail>
    ensures { IfOk result (λ names. (length (names_of names) ≡ length entries.now) × AllDiffer (names_of names)) }
{
    let Ok(mut names) = Names::open(alloc, entries) else {
        return Err(Fail::from("the names open"));
    };
    if first.open_round > 0 && !entries.is_empty() {
        names.hide(0);
    }
    Ok(names)
}

/// The poller's ends and the cell of a route whose inbox and outbox have this many places each.
fn opened(alloc: Global, r: usize, places: u32) -> Result<(Ends, RouteCell), Fail> {
    let Some(route) = ROUTES.get(r) else {
        return Err(Fail::from("a route"));
    };
    let mut entry = entry(alloc, route)?;
    entry.inbox = places;
    entry.outbox = places;
    let Ok((ingress, _, cell, drain)) = open_route(alloc, &entry, r) else {
        return Err(Fail::from("the route opens"));
    };
    Ok((Ends { ingress, drain }, cell))
}

/// The routes `studio` and `files` with these schedules, whose inboxes and outboxes have this many places each.
fn with_places(alloc: Global, schedules: [Schedule; 2], places: u32) -> Result<Routes, Fail> {
    let (studio, studio_cell) = opened(alloc, 0, places)?;
    let (files, files_cell) = opened(alloc, 1, places)?;
    Ok(Routes {
        schedules,
        ends: [studio, files],
        cells: [studio_cell, files_cell],
    })
}

/// The routes `studio` and `files` with these schedules, whose inboxes and outboxes have 16 places each.
fn scheduled(alloc: Global, schedules: [Schedule; 2]) -> Result<Routes, Fail> {
    with_places(alloc, schedules, 16)
}

/// The routes `studio` and `files`, always open.
fn open_routes(alloc: Global) -> Result<Routes, Fail> {
    scheduled(alloc, [ALWAYS; 2])
}

/// The report of this many rounds over these devices.
fn pumped<S: Source, W: Wire>(
    rt: &(impl AllocGlobal + Wait),
    schedules: [Schedule; 2],
    ends: &mut [Ends; 2],
    source: &mut S,
    wire: &mut W,
    rounds: u32,
) -> Result<Report, Fail> {
    let alloc = rt.alloc();
    let entries = [entry(alloc, &ROUTES[0])?, entry(alloc, &ROUTES[1])?];
    let mut names = named(alloc, &entries, schedules[0])?;
    Ok(pump(
        rt,
        alloc,
        &Secret::new(SECRET),
        &mut names,
        &schedules,
        source,
        wire,
        ends,
        rounds,
    ))
}

/// What the poller did in this many rounds over these devices, under these signals.
fn pumped_under<S: Source, W: Wire, G: Signals>(
    rt: &(impl AllocGlobal + Wait),
    schedules: [Schedule; 2],
    ends: &mut [Ends; 2],
    source: &mut S,
    wire: &mut W,
    rounds: u64,
    signals: &G,
) -> Result<Pumping, Fail>
    requires { rounds ≤ 2 ^ 48 }
{
    let alloc = rt.alloc();
    let entries = [entry(alloc, &ROUTES[0])?, entry(alloc, &ROUTES[1])?];
    let mut names = named(alloc, &entries, schedules[0])?;
    let secret = Secret::new(SECRET);
    let task = PollerTask {
        rt,
        alloc,
        secret: &secret,
        schedules: &schedules,
        rounds,
        signals,
    };
    Ok(pump_under(&task, &mut names, ends, source, wire))
}

/// The report of this many rounds in which the source does these steps.
fn reported(
    rt: &(impl AllocGlobal + Wait),
    routes: &mut Routes,
    steps: Vec<SourceStep>,
    wire: &mut WireScript,
    rounds: u32,
) -> Result<Report, Fail> {
    let mut source = SourceScript::new(steps);
    pumped(
        rt,
        routes.schedules,
        &mut routes.ends,
        &mut source,
        wire,
        rounds,
    )
}

/// Serves each route this many times.
fn serve(rt: &impl Wait, routes: &Routes, times: usize) {
    let mut gate = Ungated;
    for cell in &routes.cells {
        for _ in 0..times {
            let _ = cell.serve(rt, &mut gate);
        }
    }
}

/// The reply of the first route to the conclusion of the caller with this ID, if those with the IDs 1 and 2 came first,
/// in this order: two publishers are let in.
fn reply_to<'a>(caller: u32) -> Sample<'a> {
    match caller {
        1 => publisher_answer(1),
        2 => standby_answer(2),
        _ => refusal(caller, 1002),
    }
}

/// Asserts the bytes of a datagram that was sent.
fn assert_bytes(
    rt: &(impl AllocGlobal + Abort),
    bytes: &[u8],
    wanted: Sample<'_>,
) -> Result<(), Fail> {
    let wanted = wanted.bytes(rt.alloc())?;
    assert_eq!(rt; first_difference(bytes, &wanted), None);
    Ok(())
}

/// Asserts that the wire was handed the replies of the first route to the callers with the IDs 1 to `last`, in order,
/// and nothing else.
fn assert_replies(
    rt: &(impl AllocGlobal + Abort),
    wire: &WireScript,
    last: u32,
) -> Result<(), Fail> {
    assert_eq!(rt; wire.handed().len(), last as usize);
    for caller in 1..=last {
        let Some(sent) = wire.handed().get(caller as usize - 1) else {
            return Err(Fail::from("a reply"));
        };
        assert_bytes(rt, &sent.bytes, reply_to(caller))?;
    }
    Ok(())
}

/// Asserts that the wire was handed these and nothing else, all to port 5000.
fn assert_handed(
    rt: &(impl AllocGlobal + Abort),
    wire: &WireScript,
    wanted: &[Sample<'_>],
) -> Result<(), Fail> {
    assert_eq!(rt; wire.handed().len(), wanted.len());
    for (sent, sample) in wire.handed().iter().zip(wanted) {
        assert!(rt; sent.to == peer(5000));
        assert_bytes(rt, &sent.bytes, *sample)?;
    }
    Ok(())
}

#[test]
fn an_induction_is_answered_and_a_failed_read_is_counted(rt: HostRuntime) -> Result<(), Fail> {
    let alloc = rt.alloc();
    let mut routes = open_routes(alloc)?;
    let mut wire = WireScript::new(alloc, Vec::new(alloc));
    let steps = vec![in alloc; comes(alloc, induction_of(CALLER))?, SourceStep::ReadFails]?;
    let report = reported(&rt, &mut routes, steps, &mut wire, 2)?;
    assert_eq!(&rt;
        report,
        Report {
            faults: 1,
            ..ANSWERED
        }
    );
    assert_handed(&rt, &wire, &[induction_answer(CALLER)])
}

/// The report of one round that reads an induction, if the wire's send returns `sent`.
fn induction_with(
    rt: &(impl AllocGlobal + Wait),
    wait: SourceStep,
    sent: Sent,
) -> Result<Report, Fail> {
    let alloc = rt.alloc();
    let mut routes = open_routes(alloc)?;
    let mut wire = WireScript::new(alloc, vec![in alloc; sent]?);
    let steps = vec![in alloc; wait, comes(alloc, induction_of(CALLER))?]?;
    reported(rt, &mut routes, steps, &mut wire, 1)
}

#[test]
fn an_answer_that_is_not_sent_is_lost_and_after_a_failed_wait_nothing_is_read(
    rt: HostRuntime,
) -> Result<(), Fail> {
    let late = Report {
        read: 1,
        answered: 1,
        lost: 1,
        ..Report::NOTHING
    };
    let failed = Report { faults: 1, ..late };
    assert_eq!(&rt; induction_with(&rt, SourceStep::Wait, Sent::Later)?, late);
    assert_eq!(&rt;
        induction_with(&rt, SourceStep::Wait, Sent::Failed)?,
        failed
    );
    assert_eq!(&rt;
        induction_with(&rt, SourceStep::WaitFails, Sent::Taken)?,
        Report {
            faults: 1,
            ..Report::NOTHING
        }
    );
    Ok(())
}

#[test]
fn what_comes_is_answered_offered_or_dropped_and_a_full_inbox_loses_it(
    rt: HostRuntime,
) -> Result<(), Fail> {
    let alloc = rt.alloc();
    let mut routes = open_routes(alloc)?;
    let mut wire = WireScript::new(alloc, Vec::new(alloc));
    let mut steps = vec![in alloc;
        comes(alloc, stray_shutdown())?,
        comes(alloc, induction_of(CALLER))?,
    ]?;
    for _ in 0..17 {
        steps.push(comes(alloc, conclusion_of(1, &STUDIO))?)?;
    }
    let report = reported(&rt, &mut routes, steps, &mut wire, 1)?;
    assert_eq!(&rt;
        report,
        Report {
            read: 19,
            answered: 1,
            accepted: 16,
            full: 1,
            dropped: 1,
            sent: 1,
            ..Report::NOTHING
        }
    );
    assert_handed(&rt, &wire, &[induction_answer(CALLER)])
}

/// Routes with 16 places each, the first of which has the replies to the callers with the IDs 1 to `count` in its
/// outbox.
fn with_replies(rt: &(impl AllocGlobal + Wait), count: u32) -> Result<Routes, Fail> {
    let mut routes = open_routes(rt.alloc())?;
    conclude(rt, &mut routes, &[(STUDIO, count)])?;
    Ok(routes)
}

/// In one round, callers send conclusions with these blocks: each as many as its number says, with the IDs from 1 on.
/// Then all routes are served. Nothing is sent.
fn conclude(
    rt: &(impl AllocGlobal + Wait),
    routes: &mut Routes,
    conclusions: &[([Block<'_>; 2], u32)],
) -> Result<(), Fail> {
    let alloc = rt.alloc();
    let mut wire = WireScript::new(alloc, Vec::new(alloc));
    let mut steps = Vec::new(alloc);
    for (blocks, count) in conclusions {
        for caller in 1..=*count {
            steps.push(comes(alloc, conclusion_of(caller, blocks))?)?;
        }
    }
    let times = steps.len().saturating_mul(2);
    let _ = reported(rt, routes, steps, &mut wire, 1)?;
    serve(rt, routes, times);
    Ok(())
}

#[test]
fn a_reply_that_is_put_off_goes_first_and_once(rt: HostRuntime) -> Result<(), Fail> {
    let alloc = rt.alloc();
    let mut routes = with_replies(&rt, 3)?;
    let mut wire = WireScript::new(alloc, vec![in alloc; Sent::Later; 10_000]?);
    let report = reported(&rt, &mut routes, Vec::new(alloc), &mut wire, 10_001)?;
    assert_eq!(&rt;
        report,
        Report {
            sent: 3,
            ..Report::NOTHING
        }
    );
    assert_replies(&rt, &wire, 3)
}

/// Five of the first ten sends are put off: the second reply twice, the fourth once, the fifth twice.
#[test]
fn replies_that_are_put_off_now_and_then_keep_their_order(rt: HostRuntime) -> Result<(), Fail> {
    let alloc = rt.alloc();
    let mut routes = with_replies(&rt, 6)?;
    let (taken, later) = (Sent::Taken, Sent::Later);
    let answers = vec![in alloc;
        taken, later, later, taken, taken, later, taken, later, later, taken,
    ]?;
    let mut wire = WireScript::new(alloc, answers);
    let report = reported(&rt, &mut routes, Vec::new(alloc), &mut wire, 6)?;
    assert_eq!(&rt;
        report,
        Report {
            sent: 6,
            ..Report::NOTHING
        }
    );
    assert_replies(&rt, &wire, 6)
}

#[test]
fn a_reply_that_is_kept_at_the_end_is_lost(rt: HostRuntime) -> Result<(), Fail> {
    let alloc = rt.alloc();
    let mut routes = with_replies(&rt, 2)?;
    let mut wire = WireScript::new(alloc, vec![in alloc; Sent::Later, Sent::Later]?);
    let report = reported(&rt, &mut routes, Vec::new(alloc), &mut wire, 2)?;
    assert_eq!(&rt;
        report,
        Report {
            lost: 1,
            ..Report::NOTHING
        }
    );
    assert_handed(&rt, &wire, &[])?;
    // The other one was not taken.
    let report = reported(&rt, &mut routes, Vec::new(alloc), &mut wire, 1)?;
    assert_eq!(&rt;
        report,
        Report {
            sent: 1,
            ..Report::NOTHING
        }
    );
    assert_handed(&rt, &wire, &[standby_answer(2)])
}

#[test]
fn a_reply_that_meets_a_failure_is_lost(rt: HostRuntime) -> Result<(), Fail> {
    let alloc = rt.alloc();
    let mut routes = with_replies(&rt, 2)?;
    let mut wire = WireScript::new(alloc, vec![in alloc; Sent::Failed]?);
    let report = reported(&rt, &mut routes, Vec::new(alloc), &mut wire, 1)?;
    assert_eq!(&rt;
        report,
        Report {
            sent: 1,
            lost: 1,
            faults: 1,
            ..Report::NOTHING
        }
    );
    assert_eq!(&rt; wire.failures(), 1);
    assert_replies(&rt, &wire, 2)
}

/// Serves a route until it has nothing to do or is blocked, and returns whether it is blocked. Counts the items that
/// were applied.
fn serve_all<R: Wait>(rt: &R, cell: &RouteCell, applied: &mut u32) -> bool {
    let mut gate = Ungated;
    for _ in 0..64u32 {
        match cell.serve(rt, &mut gate) {
            Served::Turned(Turned::Applied) => *applied = applied.saturating_add(1),
            Served::Turned(Turned::Moved) => {}
            Served::Turned(Turned::Blocked) => return true,
            _ => return false,
        }
    }
    false
}

/// A source that serves all routes whenever it waits, and does what its script says.
#[derive(Drop)]
struct Serving<'a, R: Wait> {
    rt: &'a R,
    cells: &'a [RouteCell],
    script: SourceScript,
    // the number of waits before the first one that serves
    idle: u32,
    // how often a wait left a route blocked
    blocked: u32,
    applied: u32,
}

impl<'a, R: Wait> Serving<'a, R> {
    /// A source that does these steps, and serves these routes.
    fn new(rt: &'a R, cells: &'a [RouteCell], steps: Vec<SourceStep>) -> Serving<'a, R> {
        Serving {
            rt,
            cells,
            script: SourceScript::new(steps),
            idle: 0,
            blocked: 0,
            applied: 0,
        }
    }

    /// Serves all routes, unless this wait is an idle one. Returns the number of routes that are blocked, and the number
    /// of items that were applied.
    fn serve(&self) -> (u32, u32) {
        let (mut blocked, mut applied) = (0u32, 0u32);
        if self.idle > 0 {
            return (blocked, applied);
        }
        for cell in self.cells {
            if serve_all(self.rt, cell, &mut applied) {
                blocked = blocked.saturating_add(1);
            }
        }
        (blocked, applied)
    }
}

impl<'a, R: Wait> Source for Serving<'a, R> {
    ghost failures = { λ s. ⟦<SourceScript as Source>⟧.failures s.script };

    ghost gave = { λ s. ⟦<SourceScript as Source>⟧.gave s.script };

    ghost calls = { λ s. ⟦<SourceScript as Source>⟧.calls s.script };

    fn wait(&mut self) -> Polled {
        let (blocked, applied) = self.serve();
        self.idle = self.idle.saturating_sub(1);
        self.blocked = self.blocked.saturating_add(blocked);
        self.applied = self.applied.saturating_add(applied);
        self.script.wait()
    }

    fn next(&mut self, buffer: &mut [u8; 2048]) -> Read {
        self.script.next(buffer)
    }

    fn failures(&self) -> u64 {
        self.script.failures()
    }
}

/// The first reply is kept and 16 more fill the outbox, so turns are blocked; the next reply waits, and 16 items fill
/// the inbox. So of 60 conclusions 34 are answered, once the wire takes datagrams again.
#[test]
fn a_wire_that_puts_off_blocks_turns_and_fills_inboxes(rt: HostRuntime) -> Result<(), Fail> {
    let alloc = rt.alloc();
    let mut routes = open_routes(alloc)?;
    let mut wire = WireScript::new(alloc, vec![in alloc; Sent::Later; 10_000]?);
    let mut steps = Vec::new(alloc);
    for _ in 0..60 {
        steps.push(comes(alloc, conclusion_of(1, &STUDIO))?)?;
        steps.push(SourceStep::Empty)?;
    }
    let mut source = Serving::new(&rt, &routes.cells, steps);
    let report = pumped(
        &rt,
        [ALWAYS; 2],
        &mut routes.ends,
        &mut source,
        &mut wire,
        10_100,
    )?;
    assert!(&rt; source.blocked > 9_000);
    assert_eq!(&rt;
        report,
        Report {
            read: 60,
            accepted: 34,
            full: 26,
            sent: 34,
            ..Report::NOTHING
        }
    );
    for sent in wire.handed() {
        assert_bytes(&rt, &sent.bytes, publisher_answer(1))?;
    }
    Ok(())
}

fn local(port: u16) -> SocketAddr {
    SocketAddr::V4(SocketAddrV4::new(Ipv4Addr::new(127, 0, 0, 1), port))
}

type Socket = (MioSource<ClockScript>, MioWire);

/// A source and a wire at this port, or at one that the system chooses.
fn bound<N: Net>(net: &N, alloc: Global, port: u16) -> Result<Socket, Fail> {
    let clock = ClockScript::new(vec![in alloc; 7]?);
    match MioSource::open(net, alloc, local(port), clock) {
        Ok(ends) => Ok(ends),
        Err(_) => Err(Fail::from("the socket is bound")),
    }
}

fn address(source: &MioSource<ClockScript>) -> Result<SocketAddr, Fail> {
    match source.address() {
        Some(address) => Ok(address),
        None => Err(Fail::from("the socket has an address")),
    }
}

/// The next datagram within 100 waits: its sender, its length, and whether all its bytes are `byte`.
fn received(
    source: &mut MioSource<ClockScript>,
    buffer: &mut [u8; 2048],
    byte: u8,
) -> Option<(Peer, usize, bool)> {
    for _ in 0..100u32 {
        if let Read::Datagram(from, len, _) = source.next(buffer) {
            let same = buffer.iter().take(len).all(|it| *it == byte);
            return Some((from, len, same));
        }
        let _ = source.wait();
    }
    None
}

/// The moment of the next datagram within 100 waits.
fn moment_received(source: &mut MioSource<ClockScript>) -> Option<u64> {
    let mut buffer = [0u8; 2048];
    for _ in 0..100u32 {
        if let Read::Datagram(_, _, moment) = source.next(&mut buffer) {
            return Some(moment);
        }
        let _ = source.wait();
    }
    None
}

/// A peer sends datagrams of several sizes that repeat a byte, and each is read.
fn assert_reads(
    rt: &(impl Net + Abort),
    source: &mut MioSource<ClockScript>,
    byte: u8,
) -> Result<(), Fail> {
    let bytes = [byte; 3000];
    let mut buffer = [0u8; 2048];
    let target = address(source)?;
    let client = UdpSocket::bind(rt, local(0))?;
    let port = client.local_addr()?.port();
    for sent in [
        &bytes[..0],
        &bytes[..15],
        &bytes[..16],
        &bytes[..1472],
        &bytes[..1473],
        &bytes[..2048],
        &bytes[..],
    ] {
        client.send_to(sent, target)?;
        assert_eq!(rt;
            received(source, &mut buffer, byte),
            Some((peer(port), sent.len().min(2048), true))
        );
    }
    assert_eq!(rt; source.next(&mut buffer), Read::Empty);
    Ok(())
}

#[test]
fn a_socket_reads_datagrams_of_several_peers(rt: HostRuntime) -> Result<(), Fail> {
    let (mut source, _wire) = bound(&rt, rt.alloc(), 0)?;
    assert_reads(&rt, &mut source, 7)?;
    assert_reads(&rt, &mut source, 8)?;
    assert_eq!(&rt; source.failures(), 0);
    Ok(())
}

/// A client sends an induction to this source, and gets the answer from its address.
fn assert_answers(
    rt: &(impl AllocGlobal + Net + Wait + Abort),
    ends: &mut [Ends; 2],
    source: &mut MioSource<ClockScript>,
    wire: &mut MioWire,
) -> Result<(), Fail> {
    let target = address(source)?;
    let client = UdpSocket::bind(rt, local(0))?;
    client.send_to(&induction_of(CALLER).bytes(rt.alloc())?, target)?;
    assert_eq!(rt; pumped(rt, [ALWAYS; 2], ends, source, wire, 10)?, ANSWERED);
    let mut answer = [0u8; 100];
    let (len, from) = client.recv_from(&mut answer)?;
    assert_eq!(rt; len, 64);
    assert_eq!(rt; from, target);
    Ok(())
}

#[test]
fn a_socket_answers_an_induction(rt: HostRuntime) -> Result<(), Fail> {
    let alloc = rt.alloc();
    let mut routes = open_routes(alloc)?;
    let (mut source, mut wire) = bound(&rt, alloc, 0)?;
    assert_answers(&rt, &mut routes.ends, &mut source, &mut wire)
}

/// A client gets what this wire sends to it.
fn assert_sends(rt: &(impl Net + Abort), wire: &mut MioWire) -> Result<(), Fail> {
    let client = UdpSocket::bind(rt, local(0))?;
    let port = client.local_addr()?.port();
    assert_eq!(rt; wire.send(peer(port), &[1, 2, 3]), Sent::Taken);
    let mut bytes = [0u8; 100];
    assert_eq!(rt; client.recv_from(&mut bytes)?.0, 3);
    Ok(())
}

#[test]
fn a_send_to_a_peer_without_an_ipv4_address_fails(rt: HostRuntime) -> Result<(), Fail> {
    let (_source, mut wire) = bound(&rt, rt.alloc(), 0)?;
    assert_sends(&rt, &mut wire)?;
    let elsewhere = Peer {
        ip: [1; 16],
        port: 5000,
    };
    assert_eq!(&rt; wire.send(elsewhere, &[1, 2, 3]), Sent::Failed);
    assert_eq!(&rt; wire.failures(), 1);
    Ok(())
}

/// The system sends nothing to port 0.
#[test]
fn a_send_that_the_system_refuses_fails(rt: HostRuntime) -> Result<(), Fail> {
    let (_source, mut wire) = bound(&rt, rt.alloc(), 0)?;
    assert_eq!(&rt; wire.send(peer(0), &[1, 2, 3]), Sent::Failed);
    assert_eq!(&rt; wire.send(peer(0), &[1, 2, 3]), Sent::Failed);
    assert_eq!(&rt; wire.failures(), 2);
    assert_sends(&rt, &mut wire)
}

/// Reads that find nothing take no moment from the clock.
#[test]
fn each_datagram_of_a_socket_has_its_clocks_next_moment(rt: HostRuntime) -> Result<(), Fail> {
    let alloc = rt.alloc();
    let clock = ClockScript::new(vec![in alloc; 1_000_001, 1_000_003, 5_000_000]?);
    let Ok((mut source, _wire)) = MioSource::open(&rt, alloc, local(0), clock) else {
        return Err(Fail::from("the socket is bound"));
    };
    let mut buffer = [0u8; 2048];
    assert_eq!(&rt; source.next(&mut buffer), Read::Empty);
    let client = UdpSocket::bind(&rt, local(0))?;
    let target = address(&source)?;
    for moment in [1_000_001, 1_000_003, 5_000_000] {
        client.send_to(&[7], target)?;
        assert_eq!(&rt; moment_received(&mut source), Some(moment));
    }
    Ok(())
}

#[test]
fn a_port_that_is_taken_is_refused(rt: HostRuntime) -> Result<(), Fail> {
    let alloc = rt.alloc();
    let (source, _wire) = bound(&rt, alloc, 0)?;
    let taken = local(address(&source)?.port());
    let clock = ClockScript::new(Vec::new(alloc));
    match MioSource::open(&rt, alloc, taken, clock) {
        Ok(_) => Err(Fail::from("a port is bound twice")),
        Err(unopened) => {
            // EADDRINUSE
            assert!(&rt; unopened.fault() == BindFault::Socket(Some(98)));
            Ok(())
        }
    }
}

/// The system gives at least the 2048 bytes of its least receive buffer.
#[test]
fn a_socket_has_a_receive_buffer(rt: HostRuntime) -> Result<(), Fail> {
    let (source, _wire) = bound(&rt, rt.alloc(), 0)?;
    match source.receive_buffer() {
        Some(size) => assert!(&rt; size >= 2048),
        None => return Err(Fail::from("the system gives the size")),
    }
    Ok(())
}
