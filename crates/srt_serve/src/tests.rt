//! Runs of the gateway over devices in memory. What is expected was worked out from the rules by hand.

ghost use Rattle.std.specs.Prelude.{◌≡◌, ◌<◌, ◌≤◌, ◌^◌, None, map, length};
ghost use Rattle.std.specs.Vec.{vec_len};
ghost use Rattle.srt_types.specs.Terms.{terms_of};
ghost use Rattle.srt_lobby.specs.Opening.{fault_of};

use crate::tests::datagrams::{
    FIRST, SECOND, STUDIA, STUDIO, conclusion_answer, conclusion_of, refusal,
};
use crate::ticking::{Clocks, TickEnds, tick};
use crate::{Gates, Ran, RunFault, Ticker, run};
use srt_cookie::Secret;
use srt_lobby::Names;
use srt_mailbox::{
    ClockEnd, EmptyPlace, Gate, RouteCell, Serve, TakenElsewhere, Ungated, open_route,
};
use srt_poller::{Polled, Read, Report, Sent, Source, Wire};
use srt_samples::{Difference, Sample, first_difference, shutdown};
use srt_types::{Access, Entry, Mode, Peer, Rules, Schedule};
use srt_wakeups::Wakeups;
use std::alloc::{AllocError, Global};
use std::process::Abort;
use std::sync::atomic::{AtomicBool, AtomicU64, Ordering};
use std::sync::{Arc, Wait};
use std::test::Fail;
use std::thread;
use std::thread::Threads;

mod changing;
mod counts;
mod datagrams;
mod watched;
mod watcher_channel;
mod workers;

/// When all datagrams and ticks come, in microseconds.
const MOMENT: u64 = 1_000_000;

/// The most rounds of a run, and the most turns that a gate waits.
const LIMIT: u32 = 1_000_000;

/// The most yields of a thread that waits for another one, which may have to wait for a processor itself. Only a wrong body
/// makes as many.
const YIELDS: u32 = 100_000_000;

/// The number of waits without an answer after which a conclusion comes again.
const PAUSE: u64 = 1_000;

/// The number of answers after which no conclusion comes again.
const ANSWERS: u64 = 100;

/// The number of datagrams that a route accepted once no conclusion comes again for a watcher.
const ARRIVALS: u64 = 10;

/// The most workers that a run has.
const WORKERS: u64 = 16;

/// The bytes 0 to 31.
const SECRET: [u8; 32] = [
    0, 1, 2, 3, 4, 5, 6, 7, 8, 9, 10, 11, 12, 13, 14, 15, 16, 17, 18, 19, 20, 21, 22, 23, 24, 25,
    26, 27, 28, 29, 30, 31,
];

/// What the threads of a test share.
#[derive(Drop)]
struct Meeting {
    /// The source's second wait has begun.
    waited: AtomicBool,
    /// A gate was asked about the first route.
    entered: AtomicBool,
    /// The wire took a reply for the second caller.
    answered: AtomicBool,
    /// The source's second wait may end.
    freed: AtomicBool,
    /// A thread waited too long.
    is_late: AtomicBool,
    /// The number of datagrams that the watcher was told of, and how many of them a route accepted.
    reported: AtomicU64,
    accepted: AtomicU64,
    /// The number of replies that the wire took.
    taken: AtomicU64,
    /// The number of gates that were asked.
    inside: AtomicU64,
}

impl Meeting {
    fn open(alloc: Global) -> Result<Arc<Meeting>, Fail> {
        Ok(Arc::new(
            alloc,
            Meeting {
                waited: AtomicBool::new(false),
                entered: AtomicBool::new(false),
                answered: AtomicBool::new(false),
                freed: AtomicBool::new(false),
                is_late: AtomicBool::new(false),
                reported: AtomicU64::new(0),
                accepted: AtomicU64::new(0),
                taken: AtomicU64::new(0),
                inside: AtomicU64::new(0),
            },
        )?)
    }

    /// Waits until all of these are set, for a limited number of turns.
    fn await_all(&self, flags: &[&AtomicBool]) {
        for _ in 0..LIMIT {
            let mut is_set = true;
            for flag in flags {
                if !flag.load(Ordering::SeqCst) {
                    is_set = false;
                }
            }
            if is_set {
                return;
            }
            thread::yield_now();
        }
        self.is_late.store(true, Ordering::SeqCst);
    }

    /// Waits until the second wait may end.
    fn await_freed(&self) {
        for _ in 0..YIELDS {
            if self.freed.load(Ordering::SeqCst) {
                return;
            }
            thread::yield_now();
        }
        self.is_late.store(true, Ordering::SeqCst);
    }

    /// Waits until this many gates were asked, for a limited number of turns.
    fn await_inside(&self, count: u64) {
        for _ in 0..LIMIT {
            if self.inside.load(Ordering::SeqCst) >= count {
                return;
            }
            thread::yield_now();
        }
        self.is_late.store(true, Ordering::SeqCst);
    }
}

/// When callers call again after the first round.
#[derive(Clone, Copy)]
enum Again {
    Never,
    /// In the round of this wait, counted from 1; no tick comes before the round after it.
    InWait(u64),
    /// After each answer that the wire took, and after a pause without one, until the wire took `ANSWERS` answers.
    Answered,
    /// Never; but the second wait ends once as many gates were asked as there can be workers.
    Inside,
    /// Once the watcher was told of all datagrams that came, until `ARRIVALS` were accepted: ticks may fill an inbox.
    Reported,
    /// Never; but the second wait ends once it may.
    Freed,
}

/// A source whose waits yield. In its first round it gives each of these datagrams, and later the first of them again.
#[derive(Drop)]
struct Callers {
    meeting: Arc<Meeting>,
    datagrams: Vec<Vec<u8>>,
    waits: u64,
    given: usize,
    arrived: u64,
    seen: u64,
    quiet: u64,
    again: Again,
}

impl Callers {
    fn new(meeting: Arc<Meeting>, datagrams: Vec<Vec<u8>>, again: Again) -> Callers {
        Callers {
            meeting,
            datagrams,
            waits: 0,
            given: 0,
            arrived: 0,
            seen: 0,
            quiet: 0,
            again,
        }
    }

    /// Whether the first datagram comes again now.
    fn is_time(&mut self) -> bool {
        match self.again {
            Again::Never | Again::Inside | Again::Freed => false,
            Again::InWait(wait) => self.waits == wait,
            Again::Answered => self.is_answered(),
            Again::Reported => {
                self.meeting.reported.load(Ordering::SeqCst) >= self.arrived
                    && self.meeting.accepted.load(Ordering::SeqCst) < ARRIVALS
            }
        }
    }

    /// Whether an answer was taken since the first datagram came, or a pause is over.
    fn is_answered(&mut self) -> bool {
        let taken = self.meeting.taken.load(Ordering::SeqCst);
        if taken >= ANSWERS {
            return false;
        }
        self.quiet = self.quiet.saturating_add(1);
        let again = taken > self.seen || self.quiet >= PAUSE;
        if again {
            self.seen = taken;
            self.quiet = 0;
        }
        again
    }
}

impl Source for Callers {
    ghost failures = { λ source. 0 };

    ghost gave = { λ source. None };

    ghost calls = { λ source. None };

    fn wait(&mut self) -> Polled {
        self.waits = self.waits.saturating_add(1);
        let last = match self.again {
            Again::InWait(wait) => wait,
            _ => 1,
        };
        if self.waits > last {
            self.meeting.waited.store(true, Ordering::SeqCst);
        }
        if self.waits > 1 && self.is_time() {
            self.given = 0;
        }
        match (self.waits, self.again) {
            (2, Again::Inside) => self.meeting.await_inside(WORKERS),
            (2, Again::Freed) => self.meeting.await_freed(),
            _ => {}
        }
        thread::yield_now();
        Polled::Ready
    }

    fn next(&mut self, buffer: &mut [u8; 2048]) -> Read {
        let Some(datagram) = self.datagrams.get(self.given) else {
            return Read::Empty;
        };
        let len = datagram.len().min(2048);
        buffer[..len].copy_from_slice(&datagram.as_slice()[..len]);
        self.given = self.given.saturating_add(1);
        self.arrived = self.arrived.saturating_add(1);
        Read::Datagram(peer(), len, MOMENT)
    }

    fn failures(&self) -> u64 {
        0
    }
}

/// A ticker or a gate that takes part in a meeting.
#[derive(Drop)]
struct Member {
    meeting: Arc<Meeting>,
}

impl Member {
    fn of(meeting: &Arc<Meeting>) -> Result<Member, Fail> {
        Ok(Member {
            meeting: Arc::try_clone(meeting)?,
        })
    }
}

/// A wire that takes everything.
#[derive(Drop)]
struct Listener {
    meeting: Arc<Meeting>,
    refusal: Vec<u8>,
    answer: Vec<u8>,
    shutdown: Vec<u8>,
    /// The number of times that it took `refusal`.
    refusals: u64,
    /// The number of times that it took `answer`.
    answers: u64,
    /// The number of times that it took `shutdown`.
    shutdowns: u64,
    /// It took `shutdown`, after at least `ANSWERS` answers.
    is_closed: bool,
    /// Where the first datagram to the first caller that was none of these three differs from `answer`.
    difference: Option<Difference>,
}

impl Listener {
    fn open(alloc: Global, meeting: &Arc<Meeting>) -> Result<Listener, Fail> {
        Ok(Listener {
            meeting: Arc::try_clone(meeting)?,
            refusal: refusal().bytes(alloc)?,
            answer: conclusion_answer().bytes(alloc)?,
            shutdown: shutdown().to(FIRST).bytes(alloc)?,
            refusals: 0,
            answers: 0,
            shutdowns: 0,
            is_closed: false,
            difference: None,
        })
    }

    /// Notes where a datagram to the first caller that is none of the three differs from the answer.
    fn compare(&mut self, bytes: &[u8]) {
        let is_to_the_first = bytes.len() >= 16 && bytes[15] == 1;
        let is_known = bytes == self.refusal.as_slice() || bytes == self.shutdown.as_slice();
        if is_to_the_first && !is_known && self.difference.is_none() {
            self.difference = first_difference(bytes, &self.answer);
        }
    }
}

impl Wire for Listener {
    ghost failures = { λ wire. 0 };

    ghost handed = { λ wire. None };

    ghost attempts = { λ wire. None };

    fn send(&mut self, _to: Peer, bytes: &[u8]) -> Sent {
        self.meeting.taken.fetch_add(1, Ordering::SeqCst);
        if bytes.len() >= 16 && bytes[15] == 2 {
            self.meeting.answered.store(true, Ordering::SeqCst);
        }
        if bytes == self.refusal.as_slice() {
            self.refusals = self.refusals.saturating_add(1);
        }
        if bytes == self.answer.as_slice() {
            self.answers = self.answers.saturating_add(1);
        }
        if bytes == self.shutdown.as_slice() {
            self.shutdowns = self.shutdowns.saturating_add(1);
            self.is_closed = self.answers >= ANSWERS;
        }
        self.compare(bytes);
        Sent::Taken
    }

    fn failures(&self) -> u64 {
        0
    }
}

/// It always gives the same moment. It waits before the first until the source waits for the second time.
impl Ticker for Member {
    ghost gave = { λ ticker. None };

    fn next(&mut self) -> u64 {
        for _ in 0..LIMIT {
            if self.meeting.waited.load(Ordering::SeqCst) {
                break;
            }
            thread::yield_now();
        }
        thread::yield_now();
        MOMENT
    }
}

/// It lets a turn of the first route pass once the second caller was answered, and a turn of the second route once a
/// gate was asked about the first.
impl Gate for Member {
    ghost use Rattle.std.specs.Prelude.{None};

    ghost held = { λ gate. 0 };

    ghost requested = { λ gate. None };

    fn allows(&mut self, route: usize) -> bool {
        let meeting = &self.meeting;
        if route == 0 {
            meeting.entered.store(true, Ordering::SeqCst);
            meeting.await_all(&[&meeting.answered]);
        } else {
            meeting.await_all(&[&meeting.entered, &meeting.waited]);
        }
        true
    }

    fn is_elsewhere(&self, _route: usize, _taken: TakenElsewhere) {}

    fn seats_nobody(&self, _empty: EmptyPlace) {}

    fn held(&self) -> u64 {
        0
    }
}

/// A gate that lets no turn pass before as many gates were asked as there can be workers.
#[derive(Drop)]
struct Door {
    meeting: Arc<Meeting>,
    is_inside: bool,
}

impl Gate for Door {
    ghost use Rattle.std.specs.Prelude.{None};

    ghost held = { λ gate. 0 };

    ghost requested = { λ gate. None };

    fn allows(&mut self, _route: usize) -> bool {
        if !self.is_inside {
            self.is_inside = true;
            self.meeting.inside.fetch_add(1, Ordering::SeqCst);
        }
        self.meeting.await_inside(WORKERS);
        true
    }

    fn is_elsewhere(&self, _route: usize, _taken: TakenElsewhere) {}

    fn seats_nobody(&self, _empty: EmptyPlace) {}

    fn held(&self) -> u64 {
        0
    }
}

fn peer() -> Peer {
    Peer {
        ip: [0, 0, 0, 0, 0, 0, 0, 0, 0, 0, 0xff, 0xff, 127, 0, 0, 1],
        port: 5000,
    }
}

/// The routes of a run: the entry and the schedule of each.
#[derive(Drop)]
struct Routes {
    entries: Vec<Entry>,
    schedules: Vec<Schedule>,
}

/// A route that is open all the time.
const ALWAYS: Schedule = Schedule {
    open_round: 0,
    close_round: None,
};

/// An entry of a live route for one session, with this name and window.
fn entry_of(alloc: Global, name: &str, buffer: u32) -> Result<Entry, AllocError> {
    Ok(Entry {
        name: String::from_str(alloc, name)?,
        mode: Mode::Live,
        latency_ms: 120,
        buffer,
        sessions: 1,
        inbox: 16,
        outbox: 16,
        access: Access::anyone(),
        rules: Rules::DRAFT,
    })
}

impl Routes {
    fn none(alloc: Global) -> Routes {
        Routes {
            entries: Vec::new(alloc),
            schedules: Vec::new(alloc),
        }
    }

    fn add(
        &mut self,
        alloc: Global,
        name: &str,
        buffer: u32,
        schedule: Schedule,
    ) -> Result<(), Fail> {
        self.entries.push(entry_of(alloc, name, buffer)?)?;
        self.schedules.push(schedule)?;
        Ok(())
    }

    /// The routes `studio`, with this schedule, and `studia`.
    fn two(alloc: Global, schedule: Schedule) -> Result<Routes, Fail> {
        let mut routes = Routes::none(alloc);
        routes.add(alloc, "studio", 1024, schedule)?;
        routes.add(alloc, "studia", 32, ALWAYS)?;
        Ok(routes)
    }
}

/// What the threads of a run share, its source and its wire.
#[derive(Drop)]
struct Scene {
    meeting: Arc<Meeting>,
    source: Callers,
    wire: Listener,
}

/// Callers that send these datagrams.
fn scene_of(alloc: Global, samples: &[Sample<'_>], again: Again) -> Result<Scene, Fail> {
    let meeting = Meeting::open(alloc)?;
    let mut datagrams = Vec::new(alloc);
    for sample in samples {
        datagrams.push(sample.bytes(alloc)?)?;
    }
    let source = Callers::new(Arc::try_clone(&meeting)?, datagrams, again);
    let wire = Listener::open(alloc, &meeting)?;
    Ok(Scene {
        meeting,
        source,
        wire,
    })
}

/// A run of these routes, which must be right, with these gates of the polling thread and of the workers.
fn run_of<R, G>(
    rt: &R,
    routes: &Routes,
    scene: &mut Scene,
    poller: Option<G>,
    workers: Vec<G>,
    rounds: u32,
) -> Result<Ran<Member>, Fail>
where
    R: AllocGlobal + Threads + Wait + Sync,
    G: Gate + Send + Drop,
    requires { (1 ≤ vec_len workers) × (vec_len workers ≤ 16) }
{
    let Ok(_names) = Names::open(rt.alloc(), &routes.entries) else {
        return Err(Fail::from("the entries are right"));
    };
    if routes.schedules.len() != routes.entries.len() {
        return Err(Fail::from("there is a schedule for each entry"));
    }
    let ticker = Member::of(&scene.meeting)?;
    match run(
        rt,
        rt.alloc(),
        &Secret::new(SECRET),
        &routes.entries,
        &routes.schedules,
        &mut scene.source,
        &mut scene.wire,
        ticker,
        Gates { poller, workers },
        rounds,
    ) {
        Ok(ran) => Ok(ran),
        Err(RunFault::OutOfMemory) => Err(Fail::from("memory")),
        Err(RunFault::Thread) => Err(Fail::from("a thread")),
        Err(RunFault::Busy) => Err(Fail::from("nobody has a route")),
    }
}

#[test]
fn with_nobody_calling_nothing_is_counted(rt: HostRuntime) -> Result<(), Fail> {
    let alloc = rt.alloc();
    let routes = Routes::two(alloc, ALWAYS)?;
    let mut scene = scene_of(alloc, &[], Again::Never)?;
    let workers = vec![in alloc; Ungated]?;
    let ran = run_of(&rt, &routes, &mut scene, None, workers, 3)?;
    assert_eq!(rt; ran.report, Report::NOTHING);
    assert_eq!(rt; ran.accounts.len(), 2);
    assert_eq!(rt; scene.source.waits, 3);
    for account in &ran.accounts {
        assert!(rt; account.waiting == 0 && account.queued == 0 && account.drained == 0);
    }
    Ok(())
}

/// The gate of the first route waits for the second route's answer, so two workers must be at two routes at once.
#[test]
fn two_routes_are_served_at_once(rt: HostRuntime) -> Result<(), Fail> {
    let alloc = rt.alloc();
    let routes = Routes::two(alloc, ALWAYS)?;
    let mut scene = scene_of(
        alloc,
        &[
            conclusion_of(FIRST, &STUDIO),
            conclusion_of(SECOND, &STUDIA),
        ],
        Again::Never,
    )?;
    let workers = vec![in alloc; Member::of(&scene.meeting)?, Member::of(&scene.meeting)?]?;
    let ran = run_of(&rt, &routes, &mut scene, None, workers, LIMIT)?;
    assert!(rt; !scene.meeting.is_late.load(Ordering::SeqCst));
    assert_eq!(rt;
        ran.report,
        Report {
            read: 2,
            accepted: 2,
            sent: 2,
            ..Report::NOTHING
        }
    );
    for account in &ran.accounts {
        assert!(rt; account.taken >= 1 && account.drained == 1);
        assert!(rt; account.waiting == 0 && account.queued == 0);
    }
    Ok(())
}

/// The polling thread serves the routes of what it has read, so that the answer leaves in the same round.
#[test]
fn an_answer_leaves_in_the_round_of_its_datagram(rt: HostRuntime) -> Result<(), Fail> {
    let alloc = rt.alloc();
    let routes = Routes::two(alloc, ALWAYS)?;
    let mut scene = scene_of(alloc, &[conclusion_of(FIRST, &STUDIO)], Again::Never)?;
    let workers = vec![in alloc; Ungated]?;
    let ran = run_of(&rt, &routes, &mut scene, Some(Ungated), workers, 1)?;
    assert_eq!(rt; scene.wire.difference, None);
    assert_eq!(rt; scene.wire.answers, 1);
    assert_eq!(rt;
        ran.report,
        Report {
            read: 1,
            accepted: 1,
            sent: 1,
            ..Report::NOTHING
        }
    );
    Ok(())
}

/// A hundred answers go out while the source yields half a million times; then the route closes, and its caller gets a
/// SHUTDOWN.
#[test]
fn a_hundred_answers_are_sent_and_then_the_route_closes(rt: HostRuntime) -> Result<(), Fail> {
    a_hundred_answers(&rt, None)
}

/// The same if the polling thread serves routes too.
#[test]
fn the_polling_thread_sends_a_hundred_answers(rt: HostRuntime) -> Result<(), Fail> {
    a_hundred_answers(&rt, Some(Ungated))
}

fn a_hundred_answers<R>(rt: &R, poller: Option<Ungated>) -> Result<(), Fail>
where
    R: AllocGlobal + Threads + Wait + Abort + Sync,
{
    let alloc = rt.alloc();
    let closes = Schedule {
        open_round: 0,
        close_round: Some(LIMIT / 2),
    };
    let routes = Routes::two(alloc, closes)?;
    let mut scene = scene_of(alloc, &[conclusion_of(FIRST, &STUDIO)], Again::Answered)?;
    let workers = vec![in alloc; Ungated, Ungated]?;
    let ran = run_of(rt, &routes, &mut scene, poller, workers, LIMIT)?;
    assert_eq!(rt; scene.wire.difference, None);
    assert!(rt; scene.wire.answers >= ANSWERS && scene.wire.is_closed);
    assert_eq!(rt; ran.report.faults, 0);
    let (Some(studio), Some(studia)) = (ran.accounts.get(0), ran.accounts.get(1)) else {
        return Err(Fail::from("two accounts"));
    };
    assert!(rt; studio.drained > scene.wire.answers);
    assert_eq!(rt; studia.drained, 0);
    Ok(())
}

/// A caller that calls in the first round and in the third, at whose beginning its route opens.
#[test]
fn a_route_is_found_from_its_round_on(rt: HostRuntime) -> Result<(), Fail> {
    let alloc = rt.alloc();
    let opens = Schedule {
        open_round: 2,
        close_round: None,
    };
    let routes = Routes::two(alloc, opens)?;
    let mut scene = scene_of(alloc, &[conclusion_of(FIRST, &STUDIO)], Again::InWait(3))?;
    let workers = vec![in alloc; Ungated]?;
    let ran = run_of(&rt, &routes, &mut scene, None, workers, 4)?;
    assert_eq!(rt; scene.wire.difference, None);
    assert_eq!(rt; scene.wire.refusals, 1);
    assert!(rt; ran.report.read == 2 && ran.report.answered == 1 && ran.report.accepted == 1);
    Ok(())
}

/// As many routes and workers as there can be. One caller calls the last route; nobody calls the others.
#[test]
fn as_many_routes_and_workers_as_there_can_be_run(rt: HostRuntime) -> Result<(), Fail> {
    let alloc = rt.alloc();
    let mut routes = Routes::none(alloc);
    for index in 0..510u32 {
        let name = format!(in alloc; "r{index}")?;
        routes.add(alloc, &name, 32, ALWAYS)?;
    }
    routes.add(alloc, "studio", 32, ALWAYS)?;
    let mut scene = scene_of(alloc, &[conclusion_of(FIRST, &STUDIO)], Again::Never)?;
    let workers = vec![in alloc; Ungated; 16]?;
    let ran = run_of(&rt, &routes, &mut scene, None, workers, 2_000)?;
    assert_eq!(rt; scene.source.waits, 2_000);
    assert_eq!(rt; ran.accounts.len(), 511);
    assert!(rt; ran.report.read == 1 && ran.report.accepted == 1 && ran.report.sent <= 1);
    assert_eq!(rt; scene.meeting.taken.load(Ordering::SeqCst), ran.report.sent);
    for account in &ran.accounts {
        assert!(rt; account.drained <= ran.report.sent && account.queued <= 1);
    }
    let Some(studio) = ran.accounts.get(510) else {
        return Err(Fail::from("511 accounts"));
    };
    assert_eq!(rt; studio.drained, ran.report.sent);
    Ok(())
}

/// Each of the sixteen workers is at a route at the same time as all the others.
#[test]
fn as_many_routes_are_served_at_once_as_there_are_workers(rt: HostRuntime) -> Result<(), Fail> {
    let alloc = rt.alloc();
    let mut routes = Routes::none(alloc);
    let mut scene = scene_of(alloc, &[], Again::Inside)?;
    let mut workers = Vec::with_capacity(alloc, 16)?;
    for index in 0..16u32 {
        let name = format!(in alloc; "r{index}")?;
        routes.add(alloc, &name, 32, ALWAYS)?;
        workers.push(Door {
            meeting: Arc::try_clone(&scene.meeting)?,
            is_inside: false,
        })?;
    }
    if workers.len() != 16 {
        return Err(Fail::from("a gate for each worker"));
    }
    let _ran = run_of(&rt, &routes, &mut scene, None, workers, 2)?;
    assert!(rt; !scene.meeting.is_late.load(Ordering::SeqCst));
    assert_eq!(rt; scene.meeting.inside.load(Ordering::SeqCst), WORKERS);
    Ok(())
}

/// A ticker that ends the run with its last moment.
#[derive(Drop)]
struct Times<'a> {
    wakeups: &'a Wakeups,
    left: u32,
}

impl Ticker for Times<'_> {
    ghost gave = { λ ticker. None };

    fn next(&mut self) -> u64 {
        self.left = self.left.saturating_sub(1);
        if self.left == 0 {
            self.wakeups.finish();
        }
        MOMENT
    }
}

/// For clocks to which no end comes.
#[derive(Drop)]
struct NoEnds;

impl<E> TickEnds<E> for NoEnds {
    ghost use Rattle.std.specs.Prelude.{[]};

    ghost added = { λ _. [] };

    ghost places = { λ _. [] };

    type NoneLeft = ();

    fn next(&mut self) -> Result<E, ()> {
        Err(())
    }
}

/// The clock's ends and the cells of these routes.
fn clocked(alloc: Global, routes: &Routes) -> Result<(Vec<ClockEnd>, Vec<RouteCell>), Fail> {
    let mut ends = Vec::new(alloc);
    let mut cells = Vec::new(alloc);
    for (index, entry) in routes.entries.iter().enumerate() {
        let Ok((_, end, cell, _)) = open_route(alloc, entry, index) else {
            return Err(Fail::from("the entries are right"));
        };
        ends.push(end)?;
        cells.push(cell)?;
    }
    Ok((ends, cells))
}

/// The turns of a visit at each of these routes once the clock ticked so often, while those of `asking` ask for a worker.
fn turns_after<R: AllocGlobal + Wait>(
    rt: &R,
    routes: &Routes,
    asking: &[usize],
    ticks: u32,
) -> Result<Vec<u32>, Fail> {
    let alloc = rt.alloc();
    let (ends, cells) = clocked(alloc, routes)?;
    let wakeups = Wakeups::open(alloc, cells.len(), 1)?;
    for route in asking {
        wakeups.set_inbox_ready(*route);
    }
    let ticker = Times {
        wakeups: &wakeups,
        left: ticks,
    };
    let mut clocks = Clocks {
        ends,
        arrivals: NoEnds,
        ticker,
    };
    let _ = tick(rt, &mut clocks, &wakeups);
    let mut turns = Vec::new(alloc);
    for cell in &cells {
        turns.push(cell.visit(rt, &mut Ungated, 64).turns)?;
    }
    Ok(turns)
}

/// Of two routes the second one asks for a worker. Both get the tick.
#[test]
fn a_route_that_asks_gets_its_tick_too(rt: HostRuntime) -> Result<(), Fail> {
    let routes = Routes::two(rt.alloc(), ALWAYS)?;
    let turns = turns_after(&rt, &routes, &[1], 1)?;
    assert_eq!(rt; turns.as_slice(), [1, 1].as_slice());
    Ok(())
}

/// An inbox has 16 places: of twenty ticks it accepts 16.
#[test]
fn a_tick_that_meets_a_full_inbox_is_given_up(rt: HostRuntime) -> Result<(), Fail> {
    let routes = Routes::two(rt.alloc(), ALWAYS)?;
    let turns = turns_after(&rt, &routes, &[], 20)?;
    assert_eq!(rt; turns.as_slice(), [16, 16].as_slice());
    Ok(())
}

/// More routes than two words of marks have bits.
#[test]
fn every_route_gets_each_tick(rt: HostRuntime) -> Result<(), Fail> {
    let alloc = rt.alloc();
    let mut routes = Routes::none(alloc);
    for index in 0..130u32 {
        let name = format!(in alloc; "r{index}")?;
        routes.add(alloc, &name, 32, ALWAYS)?;
    }
    let turns = turns_after(&rt, &routes, &[0, 63, 64, 129], 3)?;
    assert_eq!(rt; turns.len(), 130);
    for count in &turns {
        assert_eq!(rt; *count, 3);
    }
    Ok(())
}
