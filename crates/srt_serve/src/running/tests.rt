//! A run that is over before it begins.

ghost use Rattle.std.specs.Prelude.{◌≡◌, None, map, length};
ghost use Rattle.srt_types.specs.Terms.{terms_of};
ghost use Rattle.srt_lobby.specs.Opening.{fault_of};

use crate::answers::{AnswersOf, Beginning};
use crate::arrivals::PollerArrivals;
use crate::opening::{Opened, open_routes};
use crate::running::{OpenedWakeups, Prepared, Shared, open_shared, prepare};
use crate::serving::{OtherThreads, PollerState, RunContext, serve_routes};
use crate::ticking::{Clocks, Ticker};
use srt_cookie::Secret;
use srt_lobby::Names;
use srt_mailbox::Ungated;
use srt_poller::{Polled, Pumping, Read, Sent, Source, Wire};
use srt_supervision::NoWatcher;
use srt_types::product_limits::MAX_ROUTES;
use srt_types::{Access, Entry, Mode, Peer, Rules, Schedule};
use std::sync::Wait;
use std::test::Fail;
use std::thread::Threads;

/// A source, a wire and a ticker that count their calls.
#[derive(Drop)]
struct Device {
    calls: u64,
}

impl Device {
    fn count(&mut self) {
        self.calls = self.calls.saturating_add(1);
    }
}

impl Source for Device {
    ghost failures = { λ source. 0 };

    ghost gave = { λ source. None };

    ghost calls = { λ source. None };

    fn wait(&mut self) -> Polled {
        self.count();
        Polled::Ready
    }

    fn next(&mut self, _buffer: &mut [u8; 2048]) -> Read {
        self.count();
        Read::Empty
    }

    fn failures(&self) -> u64 {
        0
    }
}

impl Wire for Device {
    ghost failures = { λ wire. 0 };

    ghost handed = { λ wire. None };

    ghost attempts = { λ wire. None };

    fn send(&mut self, _to: Peer, _bytes: &[u8]) -> Sent {
        self.count();
        Sent::Taken
    }

    fn failures(&self) -> u64 {
        0
    }
}

impl Ticker for Device {
    ghost gave = { λ ticker. None };

    fn next(&mut self) -> u64 {
        self.count();
        0
    }
}

/// The beginning of a run, with as many routes as there may be.
struct MostRoutes;

impl Beginning for MostRoutes {
    ghost first = { 511 };
}

/// Begins a run of five rounds with one worker, once it is over: so it is if a thread couldn't be started. Returns what
/// the poller reports.
fn serve_once_over<R>(
    rt: &R,
    entries: &[Entry],
    schedules: &[Schedule],
    source: &mut Device,
    wire: &mut Device,
) -> Result<Option<Pumping>, Fail>
where
    R: AllocGlobal + Threads + Wait + Sync,
    requires entries { fault_of (map terms_of entries.now) ≡ None }
    requires schedules { length schedules.now ≡ length entries.now }
{
    let alloc = rt.alloc();
    let Ok(prepared) = prepare(alloc, entries, schedules) else {
        return Err(Fail::from("memory"));
    };
    let Prepared { names, accounts: _ } = prepared;
    let Ok(shared) = open_shared::<AnswersOf<NoWatcher, MostRoutes>>(alloc, entries.len(), 1, false)
    else {
        return Err(Fail::from("memory"));
    };
    let Shared {
        places,
        notices,
        wakeups,
        channel,
    } = shared;
    let OpenedWakeups { wakeups, .. } = wakeups;
    let Ok(opened) = open_routes(alloc, entries, places.as_slice()) else {
        return Err(Fail::from("memory"));
    };
    let Opened {
        routes,
        ends,
        arrivals,
        clocks,
        put: _,
    } = opened;
    let Ok(openings) = PollerArrivals::new(alloc, routes, &notices, MAX_ROUTES) else {
        return Err(Fail::from("memory"));
    };
    let gates = vec![in alloc; Ungated]?;
    let watcher = channel.as_ref();
    let context = RunContext {
        rt,
        alloc,
        secret: &Secret::new([7; 32]),
        schedules,
        cells: places.as_slice(),
        routes: MAX_ROUTES,
        notices: &notices,
        wakeups: &wakeups,
        channel: watcher,
        rounds: 5,
    };
    let gate: Option<Ungated> = None;
    let mut polling = PollerState {
        names,
        ends,
        openings,
        gate,
        arrived: None,
        missing: None,
        ended: None,
    };
    let mut others = OtherThreads {
        clocks: Clocks {
            ends: clocks,
            arrivals,
            ticker: Device { calls: 0 },
        },
        gates,
        watch: NoWatcher,
        ended: None,
    };
    wakeups.finish();
    Ok(serve_routes(&context, source, wire, &mut polling, &mut others))
}

#[test]
fn without_all_threads_nothing_is_read(rt: HostRuntime) -> Result<(), Fail> {
    let entries = vec![in rt.alloc();
        Entry {
            name: String::from_str(rt.alloc(), "studio")?,
            mode: Mode::Live,
            latency_ms: 120,
            buffer: 32,
            sessions: 1,
            inbox: 16,
            outbox: 16,
            access: Access::anyone(),
            rules: Rules::DRAFT,
        },
    ]?;
    let schedules = [Schedule {
        open_round: 0,
        close_round: None,
    }];
    let Ok(_names) = Names::open(rt.alloc(), &entries) else {
        return Err(Fail::from("the entry is right"));
    };
    if schedules.len() != entries.len() {
        return Err(Fail::from("there is a schedule for each entry"));
    }
    let mut source = Device { calls: 0 };
    let mut wire = Device { calls: 0 };
    let report = serve_once_over(&rt, &entries, &schedules, &mut source, &mut wire)?;
    assert!(rt; report.is_none() && source.calls == 0 && wire.calls == 0);
    Ok(())
}
