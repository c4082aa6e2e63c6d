//! A watcher over a machine in memory, and routes that are given datagrams. The bytes of conclusions are worked out from
//! the draft by hand; a socket ID is 0x00100000 for the first slot of the route with index 0, and 0x100 more for each
//! further session there.

ghost use Rattle.std.specs.Prelude.{◌≡◌};
ghost use Rattle.srt_types.specs.Items.{input_of, moment_of};

mod changing;
mod expecting;
mod holding;
mod random_files;

use crate::{LogForm, Machine, Outlets, Start, StatusServer, Watcher};
use arrayvec::ArrayVec;
use changing::Written;
use srt_route::{Reply, Route, SessionView, Totals, Traffic};
use srt_status::{
    CauseCounts, ChangeCounts, EndCounts, EventRing, GatewayStatus, ProcessUse, RefusalCounts,
    RouteStatus,
};
use srt_supervision::{Order, Refusal, Report, RunStatus, Watch};
use srt_types::{Access, Entry, Item, Mode, NotAdmitted, Peer, Role, Rules};
use std::alloc::Global;
use std::process::Abort;
use std::test::Fail;

/// A CONCLUSION with caller ID 1 that asks to publish on the route `studio`, latency 120 ms.
const PUBLISHER: &str =
    "80000000000000000000000000000000000000050000000500000005000005dc00002000ffffffff00000001ecc958a6000000000000000000000000000000000001000300010500000000bf00780078000500063a3a212374733d726f696475703d6d2c696c627500006873";

/// A SHUTDOWN for the first slot's first session, and those for its second and third one.
const SHUTDOWN: &str = "80050000000000000000000000100000";

const LATER_SHUTDOWNS: [&str; 2] = [
    "80050000000000000000000000100100",
    "80050000000000000000000000100200",
];

/// The caller.
const CALLER: Peer = Peer {
    ip: [0, 0, 0, 0, 0, 0, 0, 0, 0, 0, 0xff, 0xff, 127, 0, 0, 1],
    port: 5000,
};

/// What a gateway is told while nothing happens.
const NOTHING: RunStatus = RunStatus {
    is_quiet: false,
    faults: 0,
    missed: 0,
    counts: Report::NOTHING,
    reports: 0,
};

/// A machine that says what it was set to.
#[derive(Drop)]
struct Set {
    moment: u64,
    stops: bool,
    drops: u64,
}

impl Machine for Set {
    fn rest(&self) {}

    fn pause(&self) {}

    fn moment(&mut self) -> u64 {
        self.moment
    }

    /// 2026-11-26T15:04:05.123Z and the moment.
    fn time(&self) -> u64 {
        self.moment.saturating_add(1_795_705_445_123_000)
    }

    fn stop_requested(&self) -> bool {
        self.stops
    }

    fn memory(&self) -> Option<u64> {
        Some(73_240_576)
    }

    fn drops(&self) -> Option<u64> {
        Some(self.drops)
    }

    fn process(&self) -> ProcessUse {
        ProcessUse {
            cpu_micros: Some(self.moment / 2),
            open_descriptors: Some(9),
            ..ProcessUse::default()
        }
    }

    fn receive_buffer(&self) -> Option<u64> {
        Some(425_984)
    }
}

/// A page that keeps some of what it was shown last.
#[derive(Drop)]
struct Shown {
    polling: bool,
    poller: Report,
    uptime_seconds: u64,
    kernel_drops: Option<u64>,
    resident_bytes: Option<u64>,
    process: ProcessUse,
    receive_buffer_bytes: Option<u64>,
    refused: RefusalCounts,
    causes: CauseCounts,
    totals: Option<Totals>,
    first: Option<SessionView>,
    opened: u64,
    take_overs: Option<u64>,
    changes: ChangeCounts,
    routes: u32,
    // the first letters of the routes' names, in their order
    initials: ArrayVec<u8, 8>,
}

impl Shown {
    fn nothing() -> Shown {
        Shown {
            polling: false,
            poller: Report::NOTHING,
            uptime_seconds: 0,
            kernel_drops: None,
            resident_bytes: None,
            process: ProcessUse::default(),
            receive_buffer_bytes: None,
            refused: RefusalCounts::default(),
            causes: CauseCounts::default(),
            totals: None,
            first: None,
            opened: 0,
            take_overs: None,
            changes: ChangeCounts::default(),
            routes: 0,
            initials: ArrayVec::new(),
        }
    }
}

impl StatusServer for Shown {
    fn is_awaited(&self) -> bool {
        false
    }

    fn serve(&mut self, gateway: &GatewayStatus<'_>, routes: &[RouteStatus], _events: &EventRing) {
        self.polling = gateway.polling;
        self.poller = gateway.poller;
        self.uptime_seconds = gateway.uptime_seconds;
        self.kernel_drops = gateway.kernel_drops;
        self.resident_bytes = gateway.resident_bytes;
        self.process = gateway.process;
        self.receive_buffer_bytes = gateway.receive_buffer_bytes;
        self.refused = gateway.refused;
        self.causes = gateway.causes;
        self.changes = gateway.changes;
        self.routes = gateway.routes;
        self.initials.clear();
        for route in routes {
            let _ = self
                .initials
                .try_extend_from_slice(route.name.as_bytes().first_chunk::<1>().unwrap_or(b"-"));
        }
        if let Some(route) = routes.first() {
            self.totals = Some(route.totals);
            self.first = route.sessions[0];
            self.opened = route.opened;
            self.take_overs = route.take_overs;
        }
    }
}

type Watching<'a> = Watcher<'a, Set, Vec<u8>, Shown, Written>;

fn entry(alloc: Global) -> Result<Entry, Fail> {
    Ok(Entry {
        name: String::from_str(alloc, "studio")?,
        mode: Mode::Live,
        latency_ms: 120,
        buffer: 32,
        sessions: 2,
        inbox: 16,
        outbox: 16,
        access: Access::anyone(),
        rules: Rules::DRAFT,
    })
}

fn start(is_blocked: bool, lasts: Option<u64>) -> Start {
    Start {
        ip: [0, 0, 0, 0, 0, 0, 0, 0, 0, 0, 0xff, 0xff, 192, 0, 2, 1],
        port: 9000,
        workers: 2,
        is_blocked,
        lasts,
        version: "0.5",
    }
}

fn watcher<'a>(
    alloc: Global,
    entries: &[Entry],
    is_timed: bool,
    start: Start,
) -> Result<Watching<'a>, Fail> {
    let machine = Set {
        moment: 0,
        stops: false,
        drops: 0,
    };
    let out = Vec::with_capacity(alloc, 16_384)?;
    Ok(Watcher::open(
        alloc,
        machine,
        Outlets {
            log: out,
            form: LogForm {
                is_timed,
                is_json: false,
            },
            page: Shown::nothing(),
        },
        entries,
        start,
    )?)
}

/// Asserts that these lines were written since the last such call, and nothing else.
fn assert_lines(rt: &impl Abort, watcher: &mut Watching<'_>, lines: &str) {
    assert_eq!(rt; watcher.changes.log.written(), lines.as_bytes());
    watcher.changes.log.clear();
}

/// Asserts that these sessions of the first route have ended.
fn assert_ends(rt: &impl Abort, watcher: &Watching<'_>, wanted: EndCounts) {
    let found = match watcher.routes.shown().first() {
        Some(status) => status.ends,
        None => None,
    };
    assert!(rt; found == Some(wanted));
}

/// Applies an item, and takes the replies.
fn apply(alloc: Global, route: &mut Route, item: &Item, moment: u64) -> Result<(), Fail>
    requires { moment_of (input_of item.now) ≡ moment }
{
    if route.waits() || moment > 10_000_000 {
        return Err(Fail::from("an early moment, and no reply that waits"));
    }
    let _ = route.step(item);
    let mut place = Box::new(alloc, Reply::blank())?;
    for _ in 0..200u32 {
        if !route.next_reply(&mut place) {
            return Ok(());
        }
    }
    Err(Fail::from("fewer than 200 replies"))
}

/// A datagram comes to the route.
fn hear(alloc: Global, route: &mut Route, moment: u64, text: &str) -> Result<(), Fail> {
    let bytes = hex::decode(alloc, text)?;
    if bytes.len() < 16 {
        return Err(Fail::from("a header"));
    }
    let mut head = [0u8; 16];
    head.copy_from_slice(&bytes[..16]);
    let item = Item::Datagram {
        peer: CALLER,
        moment,
        head,
        body: Vec::from_slice(alloc, &bytes[16..])?,
    };
    apply(alloc, route, &item, moment)
}

/// The route is closed.
fn close(alloc: Global, route: &mut Route, moment: u64) -> Result<(), Fail> {
    apply(alloc, route, &Item::Close { moment }, moment)
}

#[test]
fn the_first_lines(rt: HostRuntime) -> Result<(), Fail> {
    let entries = vec![in rt.alloc(); entry(rt.alloc())?]?;
    let mut watcher = watcher(rt.alloc(), &entries, true, start(false, None))?;
    watcher.warn("warning: route 1 (studio): sessions = 2")?;
    assert_lines(&rt, &mut watcher, "");
    watcher.machine.moment = 2_000;
    assert_eq!(rt; watcher.next(NOTHING), Order::GoOn);
    assert_lines(
        &rt,
        &mut watcher,
        "2026-11-26T15:04:05.125Z serving at 192.0.2.1:9000, routes 1, workers 2, memory 71524 KiB\n2026-11-26T15:04:05.125Z SIGINT or SIGTERM ends the gateway at once, without a report: bin/srtgw run blocks them\n2026-11-26T15:04:05.125Z warning: route 1 (studio): sessions = 2\n",
    );
    assert_eq!(rt; watcher.next(NOTHING), Order::GoOn);
    assert_lines(&rt, &mut watcher, "");
    Ok(())
}

#[test]
fn a_signal_stops_it(rt: HostRuntime) -> Result<(), Fail> {
    let entries = vec![in rt.alloc(); entry(rt.alloc())?]?;
    let mut watcher = watcher(rt.alloc(), &entries, false, start(true, None))?;
    assert_eq!(rt; watcher.next(NOTHING), Order::GoOn);
    watcher.changes.log.clear();
    watcher.machine.stops = true;
    watcher.machine.moment = 1_000_000;
    assert_eq!(rt; watcher.next(NOTHING), Order::CloseAll);
    assert_lines(&rt, &mut watcher, "stopping, by a signal\n");
    let quiet = RunStatus {
        is_quiet: true,
        ..NOTHING
    };
    watcher.machine.moment = 1_049_999;
    assert_eq!(rt; watcher.next(quiet), Order::CloseAll);
    watcher.machine.moment = 1_999_999;
    assert_eq!(rt; watcher.next(NOTHING), Order::CloseAll);
    assert_eq!(rt; watcher.next(quiet), Order::End);
    watcher.machine.moment = 2_000_000;
    assert_eq!(rt; watcher.next(NOTHING), Order::End);
    watcher.end();
    assert_lines(&rt, &mut watcher, "stopped\n");
    Ok(())
}

#[test]
fn it_stops_after_its_time(rt: HostRuntime) -> Result<(), Fail> {
    let entries = vec![in rt.alloc(); entry(rt.alloc())?]?;
    let mut watcher = watcher(rt.alloc(), &entries, false, start(true, Some(3_000_000)))?;
    watcher.machine.moment = 500_000;
    assert_eq!(rt; watcher.next(NOTHING), Order::GoOn);
    watcher.changes.log.clear();
    watcher.machine.moment = 3_499_999;
    assert_eq!(rt; watcher.next(NOTHING), Order::GoOn);
    watcher.machine.moment = 3_500_000;
    assert_eq!(rt; watcher.next(NOTHING), Order::CloseAll);
    assert_lines(&rt, &mut watcher, "stopping, the time of --for is over\n");
    Ok(())
}

#[test]
fn it_looks_twice_a_second(rt: HostRuntime) -> Result<(), Fail> {
    let entries = vec![in rt.alloc(); entry(rt.alloc())?]?;
    let mut watcher = watcher(rt.alloc(), &entries, false, start(true, None))?;
    assert!(rt; watcher.wants_routes());
    assert!(rt; !watcher.wants_routes());
    watcher.machine.moment = 499_999;
    assert!(rt; !watcher.wants_routes());
    watcher.machine.moment = 500_000;
    assert!(rt; watcher.wants_routes());
    assert!(rt; !watcher.wants_routes());
    Ok(())
}

#[test]
fn a_session_opens_and_ends(rt: HostRuntime) -> Result<(), Fail> {
    let entries = vec![in rt.alloc(); entry(rt.alloc())?]?;
    let mut watcher = watcher(rt.alloc(), &entries, false, start(true, None))?;
    let mut route = Route::open(rt.alloc(), &entries[0], 0)?;
    watcher.show_route(0, &route);
    hear(rt.alloc(), &mut route, 1_000_000, PUBLISHER)?;
    watcher.show_route(0, &route);
    assert_lines(
        &rt,
        &mut watcher,
        "studio: publisher 127.0.0.1:5000 opened, socket 0x00100000, latency 120 ms\n",
    );
    watcher.show_route(0, &route);
    assert_lines(&rt, &mut watcher, "");
    hear(rt.alloc(), &mut route, 3_500_000, SHUTDOWN)?;
    watcher.show_route(0, &route);
    assert_lines(
        &rt,
        &mut watcher,
        "studio: publisher 127.0.0.1:5000 ended, socket 0x00100000, its peer sent a SHUTDOWN, after 2500 ms, 0 packets, 0 bytes, 0 lost, 0 resent\n",
    );
    hear(rt.alloc(), &mut route, 4_000_000, PUBLISHER)?;
    watcher.show_route(0, &route);
    watcher.changes.log.clear();
    close(rt.alloc(), &mut route, 5_000_000)?;
    watcher.show_route(0, &route);
    assert_lines(
        &rt,
        &mut watcher,
        "studio: publisher 127.0.0.1:5000 ended, socket 0x00100100, its route was closed, after 1000 ms, 0 packets, 0 bytes, 0 lost, 0 resent\n",
    );
    let ends = EndCounts {
        shutdown: 1,
        route_closed: 1,
        ..EndCounts::default()
    };
    assert_ends(&rt, &watcher, ends);
    Ok(())
}

#[test]
fn a_stop_is_reported_as_the_cause(rt: HostRuntime) -> Result<(), Fail> {
    let entries = vec![in rt.alloc(); entry(rt.alloc())?]?;
    let mut watcher = watcher(rt.alloc(), &entries, false, start(true, None))?;
    let mut route = Route::open(rt.alloc(), &entries[0], 0)?;
    hear(rt.alloc(), &mut route, 1_000_000, PUBLISHER)?;
    watcher.show_route(0, &route);
    watcher.machine.stops = true;
    assert_eq!(rt; watcher.next(NOTHING), Order::CloseAll);
    watcher.changes.log.clear();
    close(rt.alloc(), &mut route, 1_500_000)?;
    watcher.show_route(0, &route);
    assert_lines(
        &rt,
        &mut watcher,
        "studio: publisher 127.0.0.1:5000 ended, socket 0x00100000, the gateway stops, after 500 ms, 0 packets, 0 bytes, 0 lost, 0 resent\n",
    );
    Ok(())
}

#[test]
fn what_came_and_went_between_two_looks(rt: HostRuntime) -> Result<(), Fail> {
    let entries = vec![in rt.alloc(); entry(rt.alloc())?]?;
    let mut watcher = watcher(rt.alloc(), &entries, false, start(true, None))?;
    let mut route = Route::open(rt.alloc(), &entries[0], 0)?;
    watcher.show_route(0, &route);
    hear(rt.alloc(), &mut route, 1_000_000, PUBLISHER)?;
    hear(rt.alloc(), &mut route, 1_001_000, SHUTDOWN)?;
    hear(rt.alloc(), &mut route, 2_000_000, PUBLISHER)?;
    hear(rt.alloc(), &mut route, 2_001_000, LATER_SHUTDOWNS[0])?;
    hear(rt.alloc(), &mut route, 3_000_000, PUBLISHER)?;
    hear(rt.alloc(), &mut route, 3_001_000, LATER_SHUTDOWNS[1])?;
    watcher.show_route(0, &route);
    assert_lines(
        &rt,
        &mut watcher,
        "studio: publisher 127.0.0.1:5000 opened, socket 0x00100200, latency 120 ms\nstudio: publisher 127.0.0.1:5000 ended, socket 0x00100200, its peer sent a SHUTDOWN, after 1 ms, 0 packets, 0 bytes, 0 lost, 0 resent\nstudio: 2 sessions opened and ended unseen\n",
    );
    let ends = EndCounts {
        shutdown: 1,
        unknown: 2,
        ..EndCounts::default()
    };
    assert_ends(&rt, &watcher, ends);
    Ok(())
}

/// A refusal by a route, or by the lobby for this cause.
fn refusal(route: Option<usize>, name: &[u8], cause: Option<NotAdmitted>) -> Result<Refusal, Fail> {
    let mut requested = ArrayVec::new();
    let _ = requested.try_extend_from_slice(name);
    Ok(Refusal {
        route,
        peer: CALLER,
        code: 1002,
        name: requested,
        cause,
    })
}

const UNKNOWN: Option<NotAdmitted> = Some(NotAdmitted::UnknownName);

#[test]
fn refusals_are_reported_with_what_was_asked_for(rt: HostRuntime) -> Result<(), Fail> {
    let entries = vec![in rt.alloc(); entry(rt.alloc())?]?;
    let mut watcher = watcher(rt.alloc(), &entries, false, start(true, None))?;
    watcher.refused(&refusal(None, b"studia", UNKNOWN)?);
    watcher.refused(&refusal(Some(0), b"", None)?);
    let stranger = Some(NotAdmitted::Address(Role::Publish));
    watcher.refused(&refusal(None, b"studio", stranger)?);
    assert_lines(
        &rt,
        &mut watcher,
        "127.0.0.1:5000 refused, 1002 PEER, asked for \"studia\", unknown name\n127.0.0.1:5000 refused, 1002 PEER, asked for \"studio\"\n127.0.0.1:5000 refused, 1002 PEER, asked for \"studio\", not in publish_from\n",
    );
    Ok(())
}

/// Refuses this many callers, each of another address.
fn play_flood(watcher: &mut Watching<'_>, count: u16) -> Result<(), Fail> {
    let mut flood = refusal(None, b"x", UNKNOWN)?;
    for caller in 0..count {
        let [high, low] = caller.to_be_bytes();
        flood.peer.ip[14] = high;
        flood.peer.ip[15] = low;
        watcher.refused(&flood);
    }
    Ok(())
}

#[test]
fn a_caller_that_comes_again_is_counted(rt: HostRuntime) -> Result<(), Fail> {
    let entries = vec![in rt.alloc(); entry(rt.alloc())?]?;
    let mut watcher = watcher(rt.alloc(), &entries, false, start(true, None))?;
    assert!(rt; watcher.wants_routes());
    let again = refusal(None, b"studia", UNKNOWN)?;
    for second in 0..4u64 {
        watcher.machine.moment = second * 1_000_000;
        watcher.refused(&again);
    }
    assert_lines(
        &rt,
        &mut watcher,
        "127.0.0.1:5000 refused, 1002 PEER, asked for \"studia\", unknown name\n",
    );
    watcher.machine.moment = 9_999_999;
    assert!(rt; watcher.wants_routes());
    assert_lines(&rt, &mut watcher, "");
    watcher.machine.moment = 10_499_999;
    assert!(rt; watcher.wants_routes());
    assert_lines(
        &rt,
        &mut watcher,
        "127.0.0.1 refused 3 more times, 1002 PEER, asked for \"studia\", unknown name\n",
    );
    watcher.refused(&again);
    watcher.end();
    assert_lines(
        &rt,
        &mut watcher,
        "stopping, all rounds were made\n127.0.0.1 refused 1 more times, 1002 PEER, asked for \"studia\", unknown name\nstopped\n",
    );
    Ok(())
}

#[test]
fn a_flood_of_refusals_has_ten_lines_a_second(rt: HostRuntime) -> Result<(), Fail> {
    let entries = vec![in rt.alloc(); entry(rt.alloc())?]?;
    let mut watcher = watcher(rt.alloc(), &entries, false, start(true, None))?;
    assert_eq!(rt; watcher.next(NOTHING), Order::GoOn);
    watcher.changes.log.clear();
    watcher.machine.moment = 1_000_000;
    play_flood(&mut watcher, 1_000)?;
    let lines = watcher
        .changes
        .log
        .written()
        .iter()
        .filter(|byte| **byte == b'\n')
        .count();
    assert_eq!(rt; lines, 10);
    watcher.changes.log.clear();
    watcher.machine.moment = 2_000_000;
    assert_eq!(rt; watcher.next(NOTHING), Order::GoOn);
    assert_lines(&rt, &mut watcher, "lines left out 990\n");
    Ok(())
}

#[test]
fn a_log_of_objects(rt: HostRuntime) -> Result<(), Fail> {
    let entries = vec![in rt.alloc(); entry(rt.alloc())?]?;
    let mut watcher = watcher(rt.alloc(), &entries, true, start(true, None))?;
    watcher.form.is_json = true;
    watcher.warn("warning: route 1 (studio): sessions = 2")?;
    watcher.machine.moment = 2_000;
    assert_eq!(rt; watcher.next(NOTHING), Order::GoOn);
    watcher.refused(&refusal(None, b"stud\"o", UNKNOWN)?);
    assert_lines(
        &rt,
        &mut watcher,
        "{\"event\":\"started\",\"time\":\"2026-11-26T15:04:05.125Z\",\"text\":\"serving at 192.0.2.1:9000, routes 1, workers 2, memory 71524 KiB\",\"bind\":\"192.0.2.1:9000\",\"routes\":1,\"workers\":2,\"memory_bytes\":73240576}\n{\"event\":\"warning\",\"time\":\"2026-11-26T15:04:05.125Z\",\"text\":\"warning: route 1 (studio): sessions = 2\",\"warning\":\"warning: route 1 (studio): sessions = 2\"}\n{\"event\":\"refused\",\"time\":\"2026-11-26T15:04:05.125Z\",\"text\":\"127.0.0.1:5000 refused, 1002 PEER, asked for \\\"stud\\\\x22o\\\", unknown name\",\"code\":1002,\"peer\":\"127.0.0.1:5000\",\"name\":\"stud\\\\x22o\",\"cause\":\"unknown_name\"}\n",
    );
    watcher.machine.moment = 1_000_000;
    watcher.machine.drops = 2;
    let status = RunStatus {
        missed: 1,
        ..NOTHING
    };
    watcher.note_status(1_000_000, status);
    watcher.end();
    assert_lines(
        &rt,
        &mut watcher,
        "{\"event\":\"left_out\",\"time\":\"2026-11-26T15:04:06.123Z\",\"text\":\"lines left out 1\",\"count\":1}\n{\"event\":\"stop_requested\",\"time\":\"2026-11-26T15:04:06.123Z\",\"text\":\"stopping, all rounds were made\",\"cause\":\"rounds\"}\n{\"event\":\"kernel_drops\",\"time\":\"2026-11-26T15:04:06.123Z\",\"text\":\"datagrams dropped by the kernel 2\",\"count\":2}\n{\"event\":\"stopped\",\"time\":\"2026-11-26T15:04:06.123Z\",\"text\":\"stopped\"}\n",
    );
    Ok(())
}

#[test]
fn a_flood_of_refusals_costs_no_line_of_a_session(rt: HostRuntime) -> Result<(), Fail> {
    let entries = vec![in rt.alloc(); entry(rt.alloc())?]?;
    let mut watcher = watcher(rt.alloc(), &entries, false, start(true, None))?;
    let mut route = Route::open(rt.alloc(), &entries[0], 0)?;
    watcher.show_route(0, &route);
    hear(rt.alloc(), &mut route, 1_000_000, PUBLISHER)?;
    watcher.machine.moment = 1_000_000;
    play_flood(&mut watcher, 1_000)?;
    watcher.changes.log.clear();
    watcher.show_route(0, &route);
    assert_lines(
        &rt,
        &mut watcher,
        "studio: publisher 127.0.0.1:5000 opened, socket 0x00100000, latency 120 ms\n",
    );
    Ok(())
}

#[test]
fn counts_are_reported_when_they_grow(rt: HostRuntime) -> Result<(), Fail> {
    let entries = vec![in rt.alloc(); entry(rt.alloc())?]?;
    let mut watcher = watcher(rt.alloc(), &entries, false, start(true, None))?;
    assert_eq!(rt; watcher.next(NOTHING), Order::GoOn);
    assert!(rt; watcher.wants_routes());
    watcher.changes.log.clear();
    let status = RunStatus {
        faults: 3,
        missed: 7,
        ..NOTHING
    };
    assert_eq!(rt; watcher.next(status), Order::GoOn);
    assert_lines(&rt, &mut watcher, "");
    watcher.machine.moment = 500_000;
    watcher.machine.drops = 208;
    assert!(rt; watcher.wants_routes());
    assert_lines(
        &rt,
        &mut watcher,
        "socket faults 3\ndatagrams dropped by the kernel 208\n",
    );
    watcher.machine.moment = 1_000_000;
    assert!(rt; watcher.wants_routes());
    assert_eq!(rt; watcher.next(status), Order::GoOn);
    assert_lines(&rt, &mut watcher, "lines left out 7\n");
    watcher.machine.drops = 210;
    watcher.end();
    assert_lines(
        &rt,
        &mut watcher,
        "stopping, all rounds were made\ndatagrams dropped by the kernel 2\nstopped\n",
    );
    Ok(())
}

#[test]
fn a_flood_hides_no_count(rt: HostRuntime) -> Result<(), Fail> {
    let entries = vec![in rt.alloc(); entry(rt.alloc())?]?;
    let mut watcher = watcher(rt.alloc(), &entries, false, start(true, None))?;
    assert_eq!(rt; watcher.next(NOTHING), Order::GoOn);
    watcher.machine.moment = 1_000_000;
    assert_eq!(rt; watcher.next(NOTHING), Order::GoOn);
    play_flood(&mut watcher, 60)?;
    watcher.changes.log.clear();
    watcher.machine.drops = 8_395;
    let status = RunStatus {
        faults: 2,
        missed: 300,
        ..NOTHING
    };
    assert_eq!(rt; watcher.next(status), Order::GoOn);
    assert!(rt; watcher.wants_routes());
    assert_lines(
        &rt,
        &mut watcher,
        "socket faults 2\ndatagrams dropped by the kernel 8395\n",
    );
    watcher.machine.moment = 2_000_000;
    assert_eq!(rt; watcher.next(status), Order::GoOn);
    assert_lines(&rt, &mut watcher, "lines left out 350\n");
    Ok(())
}

/// A data packet with payload `hi` for the first slot's first session: number 5, the conclusion's, and the one after it.
const DATA: [&str; 2] = [
    "00000005e0000001000003e8001000006869",
    "00000006e0000002000003e8001000006869",
];

#[test]
fn the_page_is_shown_sessions_and_totals(rt: HostRuntime) -> Result<(), Fail> {
    let entries = vec![in rt.alloc(); entry(rt.alloc())?]?;
    let mut watcher = watcher(rt.alloc(), &entries, false, start(true, None))?;
    let mut route = Route::open(rt.alloc(), &entries[0], 0)?;
    hear(rt.alloc(), &mut route, 1_000_000, PUBLISHER)?;
    hear(rt.alloc(), &mut route, 1_002_000, DATA[0])?;
    hear(rt.alloc(), &mut route, 1_003_000, DATA[1])?;
    hear(rt.alloc(), &mut route, 1_004_000, DATA[1])?;
    watcher.show_route(0, &route);
    assert_eq!(rt; watcher.next(NOTHING), Order::GoOn);
    let counts = srt_pub::Counts {
        arrived: 3,
        late: 0,
        ahead: 0,
        received: 2,
        bytes: 4,
        delivered: 0,
        given_up: 0,
        naks: 0,
        reported_lost: 0,
        full_window_acks: 0,
    };
    let Some(totals) = watcher.page.server.totals else {
        return Err(Fail::from("totals"));
    };
    assert_eq!(rt; totals.received, counts);
    assert_eq!(rt; watcher.page.server.opened, 1);
    let Some(session) = watcher.page.server.first else {
        return Err(Fail::from("an open session"));
    };
    assert_eq!(rt; session.peer, CALLER);
    assert_eq!(rt; session.id, 0x0010_0000);
    assert_eq!(rt; session.opened, 1_000_000);
    assert_eq!(rt; session.heard, 1_004_000);
    assert_eq!(rt; session.latency_ms, 120);
    assert!(rt; session.is_active);
    let publisher = srt_pub::Statistics {
        counts,
        in_use: 2,
        available: 30,
        rtt: 100_000,
        variance: 50_000,
        correction: None,
    };
    assert_eq!(rt; session.traffic, Traffic::Received(publisher));
    hear(rt.alloc(), &mut route, 1_005_000, SHUTDOWN)?;
    watcher.show_route(0, &route);
    assert_eq!(rt; watcher.next(NOTHING), Order::GoOn);
    assert!(rt; watcher.page.server.first.is_none());
    let Some(totals) = watcher.page.server.totals else {
        return Err(Fail::from("totals"));
    };
    assert_eq!(rt; totals.received.received, 2);
    Ok(())
}

#[test]
fn the_page_is_shown_the_gateway(rt: HostRuntime) -> Result<(), Fail> {
    let entries = vec![in rt.alloc(); entry(rt.alloc())?]?;
    let mut watcher = watcher(rt.alloc(), &entries, false, start(true, None))?;
    watcher.machine.drops = 9;
    assert!(rt; watcher.wants_routes());
    watcher.refused(&refusal(None, b"x", UNKNOWN)?);
    let keyless = Some(NotAdmitted::Key(Role::Request));
    watcher.refused(&refusal(None, b"studio", keyless)?);
    watcher.refused(&refusal(Some(0), b"", None)?);
    watcher.machine.moment = 1_999_999;
    let status = RunStatus {
        counts: Report {
            read: 11,
            dropped: 5,
            not_allowed: 4,
            ..Report::NOTHING
        },
        ..NOTHING
    };
    assert_eq!(rt; watcher.next(status), Order::GoOn);
    assert!(rt; watcher.page.server.polling);
    assert_eq!(rt; watcher.page.server.uptime_seconds, 1);
    assert_eq!(rt; watcher.page.server.poller.read, 11);
    assert_eq!(rt; watcher.page.server.kernel_drops, Some(9));
    assert_eq!(rt; watcher.page.server.resident_bytes, Some(73_240_576));
    assert_eq!(rt; watcher.page.server.receive_buffer_bytes, Some(425_984));
    let process = ProcessUse {
        cpu_micros: Some(0),
        open_descriptors: Some(9),
        ..ProcessUse::default()
    };
    assert!(rt; watcher.page.server.process == process);
    assert_eq!(rt; watcher.page.server.poller.not_allowed, 4);
    assert_eq!(rt; watcher.page.server.refused.peer, 2);
    let causes = CauseCounts {
        unknown_name: 1,
        request_key: 1,
        ..CauseCounts::default()
    };
    assert!(rt; watcher.page.server.causes == causes);
    assert_eq!(rt; watcher.page.server.take_overs, Some(0));
    watcher.machine.moment = 2_000_000;
    assert_eq!(rt; watcher.next(status), Order::GoOn);
    assert!(rt; !watcher.page.server.polling);
    let status = RunStatus {
        reports: 1,
        ..status
    };
    assert_eq!(rt; watcher.next(status), Order::GoOn);
    assert!(rt; watcher.page.server.polling);
    Ok(())
}
