//! Runs that are watched: how they end, and what a watcher is shown and told.

ghost use Rattle.std.specs.Prelude.{◌≤◌, ◌^◌};
ghost use Rattle.std.specs.Vec.{vec_len};

use crate::tests::datagrams::{FIRST, SECOND, STUDIA, STUDIO, conclusion_of};
use crate::tests::{ALWAYS, Again, LIMIT, Member, Routes, SECRET, Scene, peer, scene_of};
use crate::{
    Answers, ChangeRoutes, Crew, Gates, Refusal, RunFault, RunPlan, RunStatus, Ticker, Watch,
    Watched, run_until,
};
use srt_cookie::Secret;
use srt_lobby::Names;
use srt_mailbox::{Gate, Ungated};
use srt_poller::{Order, Source, Wire};
use srt_route::{Route, SessionView};
use srt_types::{Peer, Role};
use std::alloc::{AllocError, Global};
use std::sync::Wait;
use std::test::Fail;
use std::thread;
use std::thread::Threads;

/// More rounds than a test has time for.
pub(super) const MANY: u64 = 1 << 40;

/// What a watcher was told of a refusal.
#[derive(Drop)]
struct Note {
    route: Option<usize>,
    peer: Peer,
    code: u32,
    name: Vec<u8>,
}

/// When a watcher asks to end.
#[derive(Clone, Copy)]
enum Until {
    /// After this number of rests.
    Rests(u32),
    /// After this number of refusals.
    Refusals(usize),
    /// Once a session was open, it asked to close all, and all was quiet.
    Quiet,
    /// Never.
    Ever,
}

/// A watcher that rests by a yield. It asks to end after `LIMIT` rests at last.
#[derive(Drop)]
struct Guard {
    alloc: Global,
    until: Until,
    looks: bool,
    rests: u32,
    is_late: bool,
    /// The route, and its first slot, as it was shown the last time that a session was open.
    open: Option<(usize, SessionView)>,
    /// A session was open when a route was shown the last time.
    is_open: bool,
    /// The poller was asked to close all when it was told that all is quiet.
    was_closing: bool,
    closes: bool,
    shown: u32,
    /// What it was told first when all was quiet.
    quiet: Option<RunStatus>,
    notes: Vec<Note>,
}

impl Guard {
    fn new(alloc: Global, until: Until, looks: bool) -> Guard {
        Guard {
            alloc,
            until,
            looks,
            rests: 0,
            is_late: false,
            open: None,
            is_open: false,
            was_closing: false,
            closes: false,
            shown: 0,
            quiet: None,
            notes: Vec::new(alloc),
        }
    }

    fn wish(&mut self, reported: RunStatus) -> Order {
        match self.until {
            Until::Rests(rests) if self.rests > rests => Order::End,
            Until::Refusals(count) if self.notes.len() >= count => Order::End,
            Until::Quiet if self.quiet.is_some() => Order::End,
            Until::Quiet if reported.is_quiet => {
                self.was_closing = self.closes;
                self.quiet = Some(reported);
                Order::End
            }
            Until::Quiet if self.open.is_some() => {
                self.closes = true;
                Order::CloseAll
            }
            _ => Order::GoOn,
        }
    }

    fn note(&mut self, refusal: &Refusal) -> Result<(), AllocError> {
        let name = Vec::from_slice(self.alloc, refusal.name.as_slice())?;
        self.notes.push(Note {
            route: refusal.route,
            peer: refusal.peer,
            code: refusal.code,
            name,
        })?;
        Ok(())
    }
}

impl Answers for Guard {
    ghost answered = { λ a. Unit {0} };
}

impl Watch for Guard {
    fn next(&mut self, reported: RunStatus) -> Order {
        thread::yield_now();
        self.rests = self.rests.saturating_add(1);
        if self.rests >= LIMIT {
            self.is_late = true;
            return Order::End;
        }
        self.wish(reported)
    }

    fn wants_routes(&mut self) -> bool {
        self.looks
    }

    fn show_route(&mut self, index: usize, route: &Route) {
        self.shown = self.shown.saturating_add(1);
        self.is_open = false;
        if let Some(view) = route.session(0) {
            self.is_open = true;
            self.open = Some((index, view));
        }
    }

    fn refused(&mut self, refusal: &Refusal) {
        if self.note(refusal).is_err() {
            self.is_late = true;
        }
    }

    fn change_routes<C: ChangeRoutes>(&mut self, _run: &mut C) {}
}

/// The route `studio` alone, for one session.
pub(super) fn studio(alloc: Global) -> Result<Routes, Fail> {
    let mut routes = Routes::none(alloc);
    routes.add(alloc, "studio", 1024, ALWAYS)?;
    Ok(routes)
}

/// A run of these routes, which must be right, over these devices, with these gates and this watcher, for at most `rounds`
/// rounds.
pub(super) fn watched_over<R, S: Source, W: Wire, K, G, T>(
    rt: &R,
    routes: &Routes,
    source: &mut S,
    wire: &mut W,
    ticker: K,
    gates: Gates<G>,
    watch: T,
    rounds: u64,
) -> Result<Watched<K, T>, Fail>
where
    R: AllocGlobal + Threads + Wait + Sync,
    K: Ticker + Send + Drop,
    G: Gate + Send + Drop,
    T: Watch + Send + Drop,
    requires workers { (1 ≤ vec_len gates.workers) × (vec_len gates.workers ≤ 16) }
    requires few { rounds ≤ 2 ^ 48 }
{
    let alloc = rt.alloc();
    let Ok(_names) = Names::open(alloc, &routes.entries) else {
        return Err(Fail::from("the entries are right"));
    };
    if routes.schedules.len() != routes.entries.len() {
        return Err(Fail::from("there is a schedule for each entry"));
    }
    let secret = Secret::new(SECRET);
    let plan = RunPlan {
        secret: &secret,
        entries: &routes.entries,
        schedules: &routes.schedules,
        rounds,
    };
    let crew = Crew {
        ticker,
        gates,
        watch,
    };
    match run_until(rt, alloc, plan, source, wire, crew) {
        Ok(ran) => Ok(ran),
        Err(RunFault::OutOfMemory) => Err(Fail::from("memory")),
        Err(RunFault::Thread) => Err(Fail::from("a thread")),
        Err(RunFault::Busy) => Err(Fail::from("nobody has a route")),
    }
}

/// A run of these routes, which must be right, with two workers and this watcher, for at most `rounds` rounds.
pub(super) fn watched<R, T>(
    rt: &R,
    routes: &Routes,
    scene: &mut Scene,
    watch: T,
    rounds: u64,
) -> Result<Watched<Member, T>, Fail>
where
    R: AllocGlobal + Threads + Wait + Sync,
    T: Watch + Send + Drop,
    requires { rounds ≤ 2 ^ 48 }
{
    let ticker = Member::of(&scene.meeting)?;
    let gates = Gates {
        poller: Some(Ungated),
        workers: vec![in rt.alloc(); Ungated, Ungated]?,
    };
    watched_over(
        rt,
        routes,
        &mut scene.source,
        &mut scene.wire,
        ticker,
        gates,
        watch,
        rounds,
    )
}

/// The source waits once in each round. The watcher never looks; after the run it is shown both routes.
#[test]
fn a_watcher_ends_a_run(rt: HostRuntime) -> Result<(), Fail> {
    let alloc = rt.alloc();
    let routes = Routes::two(alloc, ALWAYS)?;
    let mut scene = scene_of(alloc, &[], Again::Never)?;
    let guard = Guard::new(alloc, Until::Rests(20), false);
    let ran = watched(&rt, &routes, &mut scene, guard, MANY)?;
    assert!(rt; ran.rounds < MANY && ran.rounds == scene.source.waits);
    assert!(rt; ran.watch.rests > 20 && !ran.watch.is_late);
    assert_eq!(rt; ran.watch.shown, 2);
    assert_eq!(rt; ran.accounts.len(), 2);
    Ok(())
}

#[test]
fn under_a_watcher_that_never_stops_all_rounds_are_made(rt: HostRuntime) -> Result<(), Fail> {
    let alloc = rt.alloc();
    let routes = Routes::two(alloc, ALWAYS)?;
    let mut scene = scene_of(alloc, &[], Again::Never)?;
    let guard = Guard::new(alloc, Until::Ever, true);
    let ran = watched(&rt, &routes, &mut scene, guard, 1_000)?;
    assert!(rt; ran.rounds == 1_000 && scene.source.waits == 1_000);
    assert!(rt; ran.watch.shown >= 2 && ran.watch.notes.is_empty());
    Ok(())
}

/// The session that the first conclusion opens is shown: its answer has socket ID 0x100000. Then all is closed, and the
/// caller gets its SHUTDOWN.
#[test]
fn open_sessions_get_their_shutdown(rt: HostRuntime) -> Result<(), Fail> {
    let alloc = rt.alloc();
    let routes = studio(alloc)?;
    let mut scene = scene_of(alloc, &[conclusion_of(FIRST, &STUDIO)], Again::Never)?;
    let guard = Guard::new(alloc, Until::Quiet, true);
    let ran = watched(&rt, &routes, &mut scene, guard, MANY)?;
    assert_eq!(rt; scene.wire.difference, None);
    assert!(rt; scene.wire.answers == 1 && scene.wire.shutdowns == 1);
    let guard = ran.watch;
    assert!(rt; !guard.is_late && guard.was_closing && !guard.is_open);
    let Some((index, view)) = guard.open else {
        return Err(Fail::from("a session was shown"));
    };
    assert!(rt; index == 0 && view.peer == peer());
    assert!(rt; view.caller == 1 && view.id == 0x10_0000);
    assert!(rt; matches!(view.role, Role::Publish));
    let Some(reported) = guard.quiet else {
        return Err(Fail::from("it was told that all is quiet"));
    };
    assert!(rt; reported.faults == 0 && reported.missed == 0);
    Ok(())
}

/// No route is called `studia`, so the lobby refuses that with 1002; `studio` has one session, and refuses a second one
/// with 1003.
#[test]
fn refusals_are_reported(rt: HostRuntime) -> Result<(), Fail> {
    let alloc = rt.alloc();
    let routes = studio(alloc)?;
    let conclusions = [
        conclusion_of(FIRST, &STUDIO),
        conclusion_of(SECOND, &STUDIO),
        conclusion_of(SECOND, &STUDIA),
    ];
    let mut scene = scene_of(alloc, &conclusions, Again::Never)?;
    let guard = Guard::new(alloc, Until::Refusals(2), false);
    let ran = watched(&rt, &routes, &mut scene, guard, MANY)?;
    let guard = ran.watch;
    assert!(rt; !guard.is_late && guard.notes.len() == 2);
    let (Some(lobby), Some(route)) = (guard.notes.get(0), guard.notes.get(1)) else {
        return Err(Fail::from("two refusals"));
    };
    assert!(rt; lobby.route.is_none() && lobby.peer == peer() && lobby.code == 1002);
    assert!(rt; lobby.name.as_slice() == b"studia".as_slice());
    assert!(rt; route.route == Some(0) && route.peer == peer() && route.code == 1003);
    assert!(rt; route.name.is_empty());
    Ok(())
}

/// One round is made, in which the lobby refuses a conclusion: that is told then or after it.
#[test]
fn what_is_left_is_reported_after_the_rounds(rt: HostRuntime) -> Result<(), Fail> {
    let alloc = rt.alloc();
    let routes = studio(alloc)?;
    let mut scene = scene_of(alloc, &[conclusion_of(SECOND, &STUDIA)], Again::Never)?;
    let guard = Guard::new(alloc, Until::Ever, false);
    let ran = watched(&rt, &routes, &mut scene, guard, 1)?;
    assert!(rt; ran.rounds == 1 && ran.report.answered == 1);
    assert!(rt; ran.watch.notes.len() == 1 && ran.watch.shown == 1);
    Ok(())
}
