//! Workers and the polling thread at routes that only count, so that a run may last long.

use crate::inline_serving::InlineServer;
use crate::watcher_channel::WatcherChannel;
use crate::working::work;
use srt_mailbox::{Attachment, Gate, Observer, Place, Serve, Served, Ungated, Unshown, Visit};
use srt_poller::{Hints, InlineService};
use srt_supervision::NoWatcher;
use srt_types::Turned;
use srt_wakeups::Wakeups;
use std::alloc::{AllocError, Global};
use std::sync::Wait;
use std::sync::atomic::{AtomicU64, Ordering};
use std::test::Fail;
use std::thread;
use std::thread::join;
use std::time::{Clock, Instant};

/// The number of notifications before a worker is asked. The program has some hundred a second.
const NOTIFICATIONS: u32 = 200_000;

/// The seconds within which a worker that is asked must come. It sleeps for a tenth of one at most.
const SOON: u64 = 5;

/// What a route has to do at each visit.
#[derive(Clone, Copy)]
enum Load {
    /// This many turns.
    Turns(u32),
    /// Another worker has it.
    Busy,
}

/// A route that counts its visits.
#[derive(Drop)]
struct Desk {
    load: Load,
    visits: AtomicU64,
}

impl Desk {
    fn visits(&self) -> u64 {
        self.visits.load(Ordering::SeqCst)
    }
}

/// What is attached to a route of a place that stays empty.
#[derive(Drop)]
struct Nothing;

impl Attachment for Nothing {
    ghost belongs = { λ _ _ _. Unit {0} };
}

impl Serve for Desk {
    ghost use Rattle.std.specs.Prelude.{ℕ};
    ghost use Rattle.srt_mailbox.specs.Cells.{CellIdentity};
    ghost use Rattle.srt_mailbox.specs.Looks.{IsRouteWith};

    ghost holds = { λ desk route waiting. (n : CellIdentity) × IsRouteWith n route waiting };

    fn visit<R: Wait, G: Gate>(&self, _rt: &R, _gate: &mut G, most: u32) -> Visit {
        self.visits.fetch_add(1, Ordering::SeqCst);
        match self.load {
            Load::Busy => Visit {
                turns: 0,
                moved: 0,
                end: Some(Served::ClaimedElsewhere),
            },
            Load::Turns(turns) if turns < most => Visit {
                turns,
                moved: 0,
                end: Some(Served::Turned(Turned::Idle)),
            },
            Load::Turns(_) => Visit {
                turns: most,
                moved: 0,
                end: None,
            },
        }
    }

    fn serve<R: Wait, G: Gate>(&self, _rt: &R, _gate: &mut G) -> Served {
        Served::Turned(Turned::Idle)
    }

    fn show<R: Wait, L: Observer>(&self, rt: &R, look: &mut L) -> Result<(), Unshown> {
        Place::<Nothing>::new().show(rt, look)
    }
}

/// A route for each of these loads.
fn desks(alloc: Global, loads: &[Load]) -> Result<Vec<Desk>, AllocError> {
    let mut desks = Vec::with_capacity(alloc, loads.len())?;
    for load in loads {
        desks.push(Desk {
            load: *load,
            visits: AtomicU64::new(0),
        })?;
    }
    Ok(desks)
}

/// The seconds since a start; the most there can be if the clock can't be read.
fn seconds_since(rt: &impl Clock, start: Option<Instant>) -> u64 {
    let Some(start) = start else {
        return u64::MAX;
    };
    match start.elapsed(rt) {
        Ok(time) => time.as_secs(),
        Err(_) => u64::MAX,
    }
}

/// Asks for a worker at the first route. Whether one comes soon.
fn is_served<R: Wait + Clock>(rt: &R, wakeups: &Wakeups, desk: &Desk) -> bool {
    let start = Instant::now(rt).ok();
    let visits = desk.visits();
    wakeups.set_inbox_ready(0);
    wakeups.wake_resting();
    for _ in rt.forever() {
        if desk.visits() > visits {
            return true;
        }
        if seconds_since(rt, start) >= SOON {
            return false;
        }
        thread::yield_now();
    }
    false
}

/// Notifies many times, and then asks for a worker several times. Whether one came each time.
fn notify_and_ask<R: Wait + Clock>(rt: &R, wakeups: &Wakeups, desks: &[Desk]) -> bool {
    for _ in 0..NOTIFICATIONS {
        wakeups.ticked(1);
    }
    let mut is_good = true;
    if let Some(desk) = desks.first() {
        for _ in 0..8 {
            is_good = is_good && is_served(rt, wakeups, desk);
        }
    }
    wakeups.finish();
    is_good
}

/// A worker of a run that lasts serves as one of a run that began.
#[test]
fn a_worker_serves_after_hundreds_of_thousands_of_notifications(
    rt: HostRuntime,
) -> Result<(), Fail> {
    let desks = desks(rt.alloc(), &[Load::Turns(1)])?;
    let wakeups = Wakeups::open(rt.alloc(), 1, 1)?;
    let (_, is_good) = join(
        &rt,
        || {
            let _ = work(&rt, desks.as_slice(), Ungated, 0, &wakeups);
        },
        || notify_and_ask(&rt, &wakeups, desks.as_slice()),
    );
    assert!(rt; is_good && wakeups.notifications() > u64::from(NOTIFICATIONS));
    Ok(())
}

/// Without a gate, after many datagrams and after some for many routes, the polling thread serves nothing, and the inbox
/// of each route to which it offered something is marked as ready.
#[test]
fn the_polling_thread_asks_for_workers(rt: HostRuntime) -> Result<(), Fail> {
    let desks = desks(rt.alloc(), &[Load::Turns(1); 12])?;
    let wakeups = Wakeups::open(rt.alloc(), 12, 1)?;
    let ungated: InlineServer<'_, HostRuntime, Desk, Ungated, WatcherChannel<NoWatcher>> =
        InlineServer::new(&rt, &desks, &wakeups, None, None);
    ungated.polled(7);
    ungated.serve_inline(1);
    assert_eq!(rt;
        (
            wakeups.next_inbox_ready(0),
            wakeups.next_inbox_ready(8),
            wakeups.next_polled(0)
        ),
        (7, 12, 12)
    );
    let inline: InlineServer<'_, HostRuntime, Desk, Ungated, WatcherChannel<NoWatcher>> =
        InlineServer::new(&rt, &desks, &wakeups, None, Some(Ungated));
    inline.polled(3);
    inline.serve_inline(64);
    assert_eq!(rt;
        (wakeups.next_inbox_ready(0), wakeups.next_inbox_ready(4)),
        (3, 7)
    );
    for route in 0..9usize {
        inline.polled(route);
    }
    inline.serve_inline(9);
    for route in 0..9usize {
        assert!(rt; wakeups.enter(route) && wakeups.next_polled(0) == 12);
    }
    assert_eq!(rt; wakeups.next_inbox_ready(0), 12);
    for desk in &desks {
        assert_eq!(rt; desk.visits(), 0);
    }
    Ok(())
}

/// The polling thread serves a few routes itself, and leaves to the workers what it doesn't finish: a route with more
/// turns than it may make, the routes after that, and one that another worker has.
#[test]
fn the_polling_thread_leaves_what_it_does_not_get_done(rt: HostRuntime) -> Result<(), Fail> {
    let loads = [
        Load::Turns(3),
        Load::Busy,
        Load::Turns(1000),
        Load::Turns(1),
    ];
    let desks = desks(rt.alloc(), &loads)?;
    let wakeups = Wakeups::open(rt.alloc(), 4, 1)?;
    let inline: InlineServer<'_, HostRuntime, Desk, Ungated, WatcherChannel<NoWatcher>> =
        InlineServer::new(&rt, &desks, &wakeups, None, Some(Ungated));
    inline.polled(0);
    inline.serve_inline(1);
    assert_eq!(rt;
        (wakeups.next_inbox_ready(0), wakeups.next_polled(0)),
        (4, 4)
    );
    inline.polled(1);
    inline.serve_inline(1);
    assert_eq!(rt;
        (wakeups.next_inbox_ready(0), wakeups.next_inbox_ready(2)),
        (1, 4)
    );
    assert!(rt; wakeups.enter(1));
    inline.polled(2);
    inline.polled(3);
    inline.serve_inline(2);
    assert!(rt; wakeups.next_inbox_ready(0) == 2 && wakeups.next_inbox_ready(3) == 3);
    let mut visits = Vec::new(rt.alloc());
    for desk in &desks {
        visits.push(desk.visits())?;
    }
    assert_eq!(rt; visits.as_slice(), [1, 1, 1, 0].as_slice());
    Ok(())
}
