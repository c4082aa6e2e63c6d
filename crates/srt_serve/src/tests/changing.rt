//! Routes that open and close while the threads of a run run, by a watcher that follows a script. What is expected was
//! worked out from the rules by hand.

ghost use Rattle.std.specs.Prelude.{◌≤◌, ◌^◌, None};
ghost use Rattle.std.specs.Vec.{vec_len};

use super::datagrams::{
    FIRST, FIRST_ROUTE, LAST_ROUTE, SECOND, SECOND_ROUTE, STUDIA, STUDIO, THIRD_ROUTE, answer_to,
    conclusion_of, refusal,
};
use super::watched::{MANY, studio, watched_over};
use super::{MOMENT, YIELDS, entry_of, peer};
use crate::{
    Answers, ChangeFault, ChangeRoutes, Gates, Refusal, RouteChanges, RunStatus, Ticker, Watch,
    Watched,
};
use srt_mailbox::{Account, EmptyPlace, Gate, TakenElsewhere, Ungated};
use srt_poller::{Order, Polled, Read, Sent, Source, Wire};
use srt_route::Route;
use srt_samples::shutdown;
use srt_types::{Entry, Peer};
use std::alloc::{AllocError, Global};
use std::process::Abort;
use std::sync::atomic::{AtomicBool, AtomicU64, Ordering};
use std::sync::{Arc, Wait};
use std::test::Fail;
use std::thread;
use std::thread::Threads;

/// The moment of a tick that ends silent sessions, in microseconds: six seconds after all datagrams.
const LATER: u64 = 7_000_000;

/// The number of reports with which a watcher knows that the poller took what it was told before: the first one may have
/// been left before that, the second one comes at the beginning of the round that takes it, and the third after it.
const REPORTS: u64 = 3;

/// The number of datagrams that find a full inbox before a script goes on.
const FULL: u64 = 10;

/// The turns after which a thread has waited too long.
const TOO_LONG: u32 = YIELDS - 1;

/// A conclusion that comes: by its place in `conclusions`.
type Call = usize;

/// The first caller calls `studio`, and calls `studia`; the second one calls `studia`.
const CALLS_STUDIO: Call = 0;

const CALLS_STUDIA: Call = 1;

const SECOND_CALLS_STUDIA: Call = 2;

fn conclusions(alloc: Global) -> Result<Vec<Vec<u8>>, AllocError> {
    Ok(vec![in alloc;
        conclusion_of(FIRST, &STUDIO).bytes(alloc)?,
        conclusion_of(FIRST, &STUDIA).bytes(alloc)?,
        conclusion_of(SECOND, &STUDIA).bytes(alloc)?,
    ]?)
}

/// A reply that the wire takes: by its place in `replies`.
type Reply = usize;

/// The first caller is told that there is no such route.
const UNKNOWN: Reply = 0;

/// The first caller gets the answer of the route with index 0, 1, 2 or 510.
const ANSWER_OF_0: Reply = 1;

const ANSWER_OF_1: Reply = 2;

const ANSWER_OF_2: Reply = 3;

const ANSWER_OF_510: Reply = 4;

/// The second caller gets the answer of the route with index 1.
const SECOND_ANSWER_OF_1: Reply = 5;

/// The first caller gets its SHUTDOWN.
const SHUTDOWN: Reply = 6;

fn replies(alloc: Global) -> Result<Vec<Vec<u8>>, AllocError> {
    Ok(vec![in alloc;
        refusal().bytes(alloc)?,
        answer_to(FIRST, FIRST_ROUTE, 1024).bytes(alloc)?,
        answer_to(FIRST, SECOND_ROUTE, 1024).bytes(alloc)?,
        answer_to(FIRST, THIRD_ROUTE, 1024).bytes(alloc)?,
        answer_to(FIRST, LAST_ROUTE, 32).bytes(alloc)?,
        answer_to(SECOND, SECOND_ROUTE, 1024).bytes(alloc)?,
        shutdown().to(FIRST).bytes(alloc)?,
    ]?)
}

/// A route that a change opens.
#[derive(Clone, Copy)]
struct Opening {
    name: &'static str,
    sessions: u32,
    buffer: u32,
}

const NEW_STUDIO: Opening = Opening {
    name: "studio",
    sessions: 1,
    buffer: 1024,
};

const NEW_STUDIA: Opening = Opening {
    name: "studia",
    sessions: 1,
    buffer: 1024,
};

const SMALL_STUDIA: Opening = Opening {
    name: "studia",
    sessions: 1,
    buffer: 32,
};

/// A route has at most 17 sessions.
const TOO_MANY_SESSIONS: Opening = Opening {
    name: "studia",
    sessions: 18,
    buffer: 1024,
};

/// One more than there are indexes after that of the first route.
const TOO_MANY_ROUTES: [Opening; 511] = [NEW_STUDIA; 511];

impl Opening {
    fn entry(&self, alloc: Global) -> Result<Entry, AllocError> {
        let mut entry = entry_of(alloc, self.name, self.buffer)?;
        entry.sessions = self.sessions;
        Ok(entry)
    }
}

/// What a watcher does before it goes on to the next step.
#[derive(Clone, Copy)]
enum Step {
    /// It asks for a change: the routes with these indexes close, and these open.
    Change(&'static [usize], &'static [Opening]),
    /// It asks for changes until one is refused: `studia` opens again, and the one that opened last closes.
    Renew,
    /// This conclusion comes in each round, until the wire took this reply once more.
    Call(Call, Reply),
    /// This conclusion comes in each round, until `FULL` more datagrams found their inbox full.
    Fill(Call),
    /// Nobody calls, until the wire took this reply.
    Hear(Reply),
    /// Nobody calls, and a tick comes at `LATER`, until this route has no session.
    Silence(usize),
    /// Nobody calls, until the poller took what it was told before.
    Rest,
    /// The gates let turns of the first route pass from now on.
    Free,
    /// Nobody calls, until the source holds a round.
    Held,
}

/// What the threads of a run with a script share.
#[derive(Drop)]
struct Stage {
    /// The conclusion that comes in each round, counted from 1; 0 if none does.
    call: AtomicU64,
    /// The number of ticks that may come.
    ticks: AtomicU64,
    /// Gates let turns of the first route pass.
    is_free: AtomicBool,
    /// The source holds a round.
    is_held: AtomicBool,
    /// The script is over, so that nobody waits any more.
    is_over: AtomicBool,
    /// A thread waited too long.
    is_late: AtomicBool,
    /// How often the wire took each reply.
    taken: Vec<AtomicU64>,
    /// The number of datagrams that it took and that are none of these replies.
    others: AtomicU64,
}

impl Stage {
    fn open(alloc: Global, replies: usize) -> Result<Arc<Stage>, Fail> {
        let mut taken = Vec::with_capacity(alloc, replies)?;
        for _ in 0..replies {
            taken.push(AtomicU64::new(0))?;
        }
        Ok(Arc::new(
            alloc,
            Stage {
                call: AtomicU64::new(0),
                ticks: AtomicU64::new(0),
                is_free: AtomicBool::new(false),
                is_held: AtomicBool::new(false),
                is_over: AtomicBool::new(false),
                is_late: AtomicBool::new(false),
                taken,
                others: AtomicU64::new(0),
            },
        )?)
    }

    /// How often the wire took this reply.
    fn taken(&self, reply: Reply) -> u64 {
        match self.taken.get(reply) {
            Some(count) => count.load(Ordering::SeqCst),
            None => 0,
        }
    }

    fn hang_up(&self) {
        self.call.store(0, Ordering::SeqCst);
    }

    fn call(&self, call: Call) {
        self.call
            .store((call as u64).saturating_add(1), Ordering::SeqCst);
    }

    /// Whether a thread that has waited for so many turns is to wait for another one.
    fn waits(&self, turns: u32) -> bool {
        if turns >= TOO_LONG {
            self.is_late.store(true, Ordering::SeqCst);
        }
        turns < TOO_LONG && !self.is_over.load(Ordering::SeqCst)
    }
}

/// A source that gives one conclusion in each round in which one is to come. Its waits yield.
#[derive(Drop)]
struct Line {
    stage: Arc<Stage>,
    conclusions: Vec<Vec<u8>>,
    /// The number of the one that comes in this round, counted from 1; 0 once it came.
    next: u64,
}

impl Source for Line {
    ghost failures = { λ source. 0 };

    ghost gave = { λ source. None };

    ghost calls = { λ source. None };

    fn wait(&mut self) -> Polled {
        thread::yield_now();
        self.next = self.stage.call.load(Ordering::SeqCst);
        Polled::Ready
    }

    fn next(&mut self, buffer: &mut [u8; 2048]) -> Read {
        if self.next == 0 {
            return Read::Empty;
        }
        let at = self.next.saturating_sub(1) as usize;
        self.next = 0;
        let Some(datagram) = self.conclusions.get(at) else {
            return Read::Empty;
        };
        let len = datagram.len().min(2048);
        buffer[..len].copy_from_slice(&datagram.as_slice()[..len]);
        Read::Datagram(peer(), len, MOMENT)
    }

    fn failures(&self) -> u64 {
        0
    }
}

/// A source that gives nothing. It holds each round until the script is over.
#[derive(Drop)]
struct Hold {
    stage: Arc<Stage>,
}

impl Source for Hold {
    ghost failures = { λ source. 0 };

    ghost gave = { λ source. None };

    ghost calls = { λ source. None };

    fn wait(&mut self) -> Polled {
        self.stage.is_held.store(true, Ordering::SeqCst);
        for turn in 0..YIELDS {
            if !self.stage.waits(turn) {
                break;
            }
            thread::yield_now();
        }
        Polled::Ready
    }

    fn next(&mut self, _buffer: &mut [u8; 2048]) -> Read {
        Read::Empty
    }

    fn failures(&self) -> u64 {
        0
    }
}

/// A wire that takes everything, and counts the replies.
#[derive(Drop)]
struct Counter {
    stage: Arc<Stage>,
    replies: Vec<Vec<u8>>,
}

impl Wire for Counter {
    ghost failures = { λ wire. 0 };

    ghost handed = { λ wire. None };

    ghost attempts = { λ wire. None };

    fn send(&mut self, _to: Peer, bytes: &[u8]) -> Sent {
        for (reply, count) in self.replies.iter().zip(self.stage.taken.iter()) {
            if bytes == reply.as_slice() {
                count.fetch_add(1, Ordering::SeqCst);
                return Sent::Taken;
            }
        }
        self.stage.others.fetch_add(1, Ordering::SeqCst);
        Sent::Taken
    }

    fn failures(&self) -> u64 {
        0
    }
}

/// A ticker whose moments come when the script lets them, and once it is over.
#[derive(Drop)]
struct Beats {
    stage: Arc<Stage>,
    given: u64,
}

impl Ticker for Beats {
    ghost gave = { λ ticker. None };

    fn next(&mut self) -> u64 {
        for turn in 0..YIELDS {
            if self.stage.ticks.load(Ordering::SeqCst) > self.given || !self.stage.waits(turn) {
                break;
            }
            thread::yield_now();
        }
        self.given = self.given.saturating_add(1);
        LATER
    }
}

/// A gate that lets no turn of the first route pass before the script frees it.
#[derive(Drop)]
struct Barrier {
    stage: Arc<Stage>,
}

impl Gate for Barrier {
    ghost use Rattle.std.specs.Prelude.{None};

    ghost held = { λ gate. 0 };

    ghost requested = { λ gate. None };

    fn allows(&mut self, route: usize) -> bool {
        if route > 0 {
            return true;
        }
        for turn in 0..YIELDS {
            if self.stage.is_free.load(Ordering::SeqCst) || !self.stage.waits(turn) {
                break;
            }
            thread::yield_now();
        }
        true
    }

    fn is_elsewhere(&self, _route: usize, _taken: TakenElsewhere) {}

    fn seats_nobody(&self, _empty: EmptyPlace) {}

    fn held(&self) -> u64 {
        0
    }
}

/// A watcher that takes these steps, one after the other, and asks to end in the rest that ends the last one. It rests by
/// a yield.
#[derive(Drop)]
struct Script {
    alloc: Global,
    stage: Arc<Stage>,
    steps: &'static [Step],
    /// The place of the step that it is at, and whether that has begun.
    at: usize,
    has_begun: bool,
    /// What the step counts, as it was when it began.
    before: u64,
    rests: u32,
    /// The route that is to have no session was shown without one.
    is_silent: bool,
    /// The index of the route that opened last.
    newest: Option<usize>,
    /// What became of the changes.
    outcomes: Vec<Result<usize, ChangeFault>>,
    refused: u64,
}

impl Script {
    fn new(alloc: Global, stage: Arc<Stage>, steps: &'static [Step]) -> Script {
        Script {
            alloc,
            stage,
            steps,
            at: 0,
            has_begun: false,
            before: 0,
            rests: 0,
            is_silent: false,
            newest: None,
            outcomes: Vec::new(alloc),
            refused: 0,
        }
    }

    /// The step that has begun.
    fn step(&self) -> Option<Step> {
        match self.steps.get(self.at) {
            Some(step) if self.has_begun => Some(*step),
            _ => None,
        }
    }

    /// What a step counts.
    fn count(&self, step: Step, reported: RunStatus) -> u64 {
        match step {
            Step::Change(_, _) => self.outcomes.len() as u64,
            Step::Renew => self.refused,
            Step::Call(_, reply) | Step::Hear(reply) => self.stage.taken(reply),
            Step::Fill(_) => reported.counts.full,
            Step::Silence(_) => self.is_silent as u64,
            Step::Rest => reported.reports,
            Step::Free => self.stage.is_free.load(Ordering::SeqCst) as u64,
            Step::Held => self.stage.is_held.load(Ordering::SeqCst) as u64,
        }
    }

    fn begin(&mut self, step: Step) {
        match step {
            Step::Change(_, _) | Step::Renew => {}
            Step::Call(call, _) | Step::Fill(call) => self.stage.call(call),
            Step::Hear(_) => {
                self.stage.hang_up();
                self.before = 0;
            }
            Step::Rest => self.stage.hang_up(),
            Step::Silence(_) => {
                self.stage.hang_up();
                self.stage.ticks.fetch_add(1, Ordering::SeqCst);
            }
            Step::Free => self.stage.is_free.store(true, Ordering::SeqCst),
            Step::Held => self.before = 0,
        }
    }

    /// Begins a step, or goes on to the next one once what it counts has grown enough.
    fn follow(&mut self, step: Step, reported: RunStatus) {
        let count = self.count(step, reported);
        if !self.has_begun {
            self.has_begun = true;
            self.before = count;
            self.begin(step);
            return;
        }
        let growth = match step {
            Step::Fill(_) => FULL,
            Step::Rest => REPORTS,
            _ => 1,
        };
        if count >= self.before.saturating_add(growth) {
            self.has_begun = false;
            self.at = self.at.saturating_add(1);
        }
    }

    fn change_of(
        &self,
        closes: &[usize],
        openings: &[Opening],
    ) -> Result<RouteChanges, AllocError> {
        let mut opens = Vec::with_capacity(self.alloc, openings.len())?;
        for opening in openings {
            opens.push(opening.entry(self.alloc)?)?;
        }
        Ok(RouteChanges {
            closes: Vec::from_slice(self.alloc, closes)?,
            opens,
        })
    }

    fn renewal(&self) -> Result<RouteChanges, AllocError> {
        match self.newest {
            Some(index) => self.change_of(&[index], &[SMALL_STUDIA]),
            None => self.change_of(&[], &[SMALL_STUDIA]),
        }
    }

    /// The change that is asked for now.
    fn wanted(&self) -> Result<Option<RouteChanges>, AllocError> {
        match self.step() {
            Some(Step::Change(closes, openings)) if self.outcomes.len() as u64 == self.before => Ok(
                Some(self.change_of(closes, openings)?),
            ),
            Some(Step::Renew) if self.refused == self.before => Ok(Some(self.renewal()?)),
            _ => Ok(None),
        }
    }

    fn note(&mut self, outcome: Result<usize, ChangeFault>) {
        match outcome {
            Ok(index) => self.newest = Some(index),
            Err(_) => self.refused = self.refused.saturating_add(1),
        }
        if self.outcomes.push(outcome).is_err() {
            self.stage.is_late.store(true, Ordering::SeqCst);
        }
    }
}

impl Answers for Script {
    ghost answered = { λ a. Unit {0} };
}

impl Watch for Script {
    fn next(&mut self, reported: RunStatus) -> Order {
        thread::yield_now();
        self.rests = self.rests.saturating_add(1);
        if let Some(step) = self.steps.get(self.at) {
            self.follow(*step, reported);
        }
        if self.at < self.steps.len() && self.stage.waits(self.rests) {
            return Order::GoOn;
        }
        self.stage.is_over.store(true, Ordering::SeqCst);
        Order::End
    }

    fn wants_routes(&mut self) -> bool {
        matches!(self.step(), Some(Step::Silence(_)))
    }

    fn show_route(&mut self, index: usize, route: &Route) {
        if let Some(Step::Silence(silent)) = self.step() {
            if index == silent && route.session(0).is_none() {
                self.is_silent = true;
            }
        }
    }

    fn refused(&mut self, _refusal: &Refusal) {}

    fn change_routes<C: ChangeRoutes>(&mut self, run: &mut C) {
        match self.wanted() {
            Ok(Some(changes)) => self.note(run.change(changes)),
            Ok(None) => {}
            Err(_) => self.stage.is_late.store(true, Ordering::SeqCst),
        }
    }
}

/// A run by a script, which began with the route `studio`.
#[derive(Drop)]
struct Played {
    stage: Arc<Stage>,
    ran: Watched<Beats, Script>,
}

impl Played {
    fn account(&self, index: usize) -> Result<Account, Fail> {
        match self.ran.accounts.get(index) {
            Some(account) => Ok(*account),
            None => Err(Fail::from("an account")),
        }
    }

    /// Asserts that the route was offered so many items that were accepted, besides ticks, and that so many replies were taken.
    fn assert_account(
        &self,
        rt: &impl Abort,
        index: usize,
        items: u64,
        replies: u64,
    ) -> Result<(), Fail> {
        let account = self.account(index)?;
        let most = items.saturating_add(self.ran.ticker.given);
        let arrived = account.taken.saturating_add(account.left);
        assert!(rt; items <= arrived && arrived <= most);
        assert!(rt; replies <= account.taken);
        assert_eq!(rt; account.drained, replies);
        Ok(())
    }
}

/// Plays a script to its end over this source, with these gates, for at most `rounds` rounds. Asserts that nobody waited too
/// long, that each datagram that was sent is a known one, and that these became of the changes.
fn play_over<R, S: Source, G>(
    rt: &R,
    stage: Arc<Stage>,
    source: &mut S,
    steps: &'static [Step],
    gates: Gates<G>,
    outcomes: &[Result<usize, ChangeFault>],
    rounds: u64,
) -> Result<Played, Fail>
where
    R: AllocGlobal + Threads + Wait + Abort + Sync,
    G: Gate + Send + Drop,
    requires workers { (1 ≤ vec_len gates.workers) × (vec_len gates.workers ≤ 16) }
    requires few { rounds ≤ 2 ^ 48 }
{
    let alloc = rt.alloc();
    let mut wire = Counter {
        stage: Arc::try_clone(&stage)?,
        replies: replies(alloc)?,
    };
    let ticker = Beats {
        stage: Arc::try_clone(&stage)?,
        given: 0,
    };
    let script = Script::new(alloc, Arc::try_clone(&stage)?, steps);
    let routes = studio(alloc)?;
    let ran = watched_over(
        rt, &routes, source, &mut wire, ticker, gates, script, rounds,
    )?;
    assert!(rt; !stage.is_late.load(Ordering::SeqCst));
    assert_eq!(rt; stage.others.load(Ordering::SeqCst), 0);
    assert_eq!(rt; ran.watch.outcomes.as_slice(), outcomes);
    Ok(Played { stage, ran })
}

/// Plays a script over the conclusions that it lets come.
fn play<R, G>(
    rt: &R,
    stage: Arc<Stage>,
    steps: &'static [Step],
    gates: Gates<G>,
    outcomes: &[Result<usize, ChangeFault>],
) -> Result<Played, Fail>
where
    R: AllocGlobal + Threads + Wait + Abort + Sync,
    G: Gate + Send + Drop,
    requires { (1 ≤ vec_len gates.workers) × (vec_len gates.workers ≤ 16) }
{
    let mut source = Line {
        stage: Arc::try_clone(&stage)?,
        conclusions: conclusions(rt.alloc())?,
        next: 0,
    };
    play_over(rt, stage, &mut source, steps, gates, outcomes, MANY)
}

/// Plays a script whose turns all pass.
fn play_ungated<R>(
    rt: &R,
    steps: &'static [Step],
    outcomes: &[Result<usize, ChangeFault>],
) -> Result<Played, Fail>
where
    R: AllocGlobal + Threads + Wait + Abort + Sync,
{
    let alloc = rt.alloc();
    let gates = Gates {
        poller: Some(Ungated),
        workers: vec![in alloc; Ungated, Ungated]?,
    };
    play(rt, Stage::open(alloc, 7)?, steps, gates, outcomes)
}

/// Its caller is refused until the route opens, and gets the answer of its session from then on.
const OPENS: &[Step] = &[
    Step::Call(CALLS_STUDIA, UNKNOWN),
    Step::Change(&[], &[NEW_STUDIA]),
    Step::Call(CALLS_STUDIA, ANSWER_OF_1),
    Step::Rest,
];

#[test]
fn a_route_that_opens_in_a_run_gets_its_datagrams(rt: HostRuntime) -> Result<(), Fail> {
    let played = play_ungated(&rt, OPENS, &[Ok(1)])?;
    let report = played.ran.report;
    assert_eq!(rt; played.ran.accounts.len(), 2);
    assert_eq!(rt; report.answered, played.stage.taken(UNKNOWN));
    played.assert_account(&rt, 0, 0, 0)?;
    played.assert_account(&rt, 1, report.accepted, played.stage.taken(ANSWER_OF_1))
}

/// A tick six seconds after its last datagram ends the session of a route that opened in the run.
const TICKS: &[Step] = &[
    Step::Change(&[], &[NEW_STUDIA]),
    Step::Call(CALLS_STUDIA, ANSWER_OF_1),
    Step::Rest,
    Step::Silence(1),
];

#[test]
fn a_route_that_opens_in_a_run_gets_its_ticks(rt: HostRuntime) -> Result<(), Fail> {
    let played = play_ungated(&rt, TICKS, &[Ok(1)])?;
    assert!(rt; played.ran.watch.is_silent && played.ran.ticker.given >= 1);
    assert_eq!(rt; played.stage.taken(SHUTDOWN), 0);
    Ok(())
}

/// Two changes are refused that would close the first route. The next one gets the index that they would have had.
const REFUSED: &[Step] = &[
    Step::Change(&[0], &TOO_MANY_ROUTES),
    Step::Change(&[0], &[NEW_STUDIA, TOO_MANY_SESSIONS]),
    Step::Rest,
    Step::Call(CALLS_STUDIO, ANSWER_OF_0),
    Step::Call(CALLS_STUDIA, UNKNOWN),
    Step::Change(&[], &[NEW_STUDIA]),
    Step::Call(CALLS_STUDIA, ANSWER_OF_1),
    Step::Rest,
];

#[test]
fn a_refused_change_does_nothing(rt: HostRuntime) -> Result<(), Fail> {
    let outcomes = [
        Err(ChangeFault::NoIndexLeft(510)),
        Err(ChangeFault::OutOfMemory(1)),
        Ok(1),
    ];
    let played = play_ungated(&rt, REFUSED, &outcomes)?;
    assert_eq!(rt; played.ran.accounts.len(), 2);
    assert_eq!(rt; played.stage.taken(SHUTDOWN), 0);
    assert!(rt; played.account(0)?.drained == played.stage.taken(ANSWER_OF_0));
    assert!(rt; played.account(1)?.drained == played.stage.taken(ANSWER_OF_1));
    Ok(())
}

/// A route opens, and the run ends at once.
const OPENS_AND_ENDS: &[Step] = &[Step::Change(&[], &[NEW_STUDIA])];

/// Whether the poller still begins a round or not.
#[test]
fn a_route_that_opens_just_before_the_end_has_its_account(rt: HostRuntime) -> Result<(), Fail> {
    let played = play_ungated(&rt, OPENS_AND_ENDS, &[Ok(1)])?;
    assert_eq!(rt; played.ran.accounts.len(), 2);
    played.assert_account(&rt, 1, 0, 0)
}

/// A route opens in the only round, after the poller took routes for the last time.
const OPENS_LATE: &[Step] = &[Step::Held, Step::Change(&[], &[NEW_STUDIA, SMALL_STUDIA])];

#[test]
fn a_route_that_opens_in_the_last_round_has_its_account(rt: HostRuntime) -> Result<(), Fail> {
    let alloc = rt.alloc();
    let stage = Stage::open(alloc, 7)?;
    let mut source = Hold {
        stage: Arc::try_clone(&stage)?,
    };
    let gates = Gates {
        poller: Some(Ungated),
        workers: vec![in alloc; Ungated, Ungated]?,
    };
    let played = play_over(&rt, stage, &mut source, OPENS_LATE, gates, &[Ok(1)], 1)?;
    assert!(rt; played.ran.rounds == 1 && played.ran.accounts.len() == 3);
    played.assert_account(&rt, 1, 0, 0)?;
    played.assert_account(&rt, 2, 0, 0)
}

/// The first route closes, and nobody finds it any more.
const CLOSES: &[Step] = &[
    Step::Call(CALLS_STUDIO, ANSWER_OF_0),
    Step::Change(&[0], &[]),
    Step::Call(CALLS_STUDIO, UNKNOWN),
    Step::Hear(SHUTDOWN),
    Step::Rest,
];

/// Its account has each datagram, the Close, each answer and the SHUTDOWN.
#[test]
fn a_route_that_closed_in_a_run_has_its_account(rt: HostRuntime) -> Result<(), Fail> {
    let played = play_ungated(&rt, CLOSES, &[Ok(1)])?;
    let report = played.ran.report;
    assert_eq!(rt; played.ran.accounts.len(), 1);
    assert_eq!(rt; played.stage.taken(SHUTDOWN), 1);
    assert_eq!(rt; report.answered, played.stage.taken(UNKNOWN));
    let answers = played.stage.taken(ANSWER_OF_0);
    played.assert_account(
        &rt,
        0,
        report.accepted.saturating_add(1),
        answers.saturating_add(1),
    )
}

/// The first route closes, and another one with its name opens. A conclusion comes in each round, from before the change
/// until the new route answers.
const RENAMED: &[Step] = &[
    Step::Call(CALLS_STUDIO, ANSWER_OF_0),
    Step::Change(&[0], &[NEW_STUDIO]),
    Step::Call(CALLS_STUDIO, ANSWER_OF_1),
    Step::Hear(SHUTDOWN),
    Step::Rest,
];

/// In the round in which the old route is hidden nobody finds the name; in the next one the new route has it.
#[test]
fn a_name_is_used_again_a_round_after_its_route_was_hidden(rt: HostRuntime) -> Result<(), Fail> {
    let played = play_ungated(&rt, RENAMED, &[Ok(1)])?;
    assert_eq!(rt; played.ran.accounts.len(), 2);
    assert!(rt; played.stage.taken(UNKNOWN) == 1 && played.ran.report.answered == 1);
    assert_eq!(rt; played.stage.taken(SHUTDOWN), 1);
    let answers = played.stage.taken(ANSWER_OF_0);
    assert!(rt; played.account(0)?.drained == answers.saturating_add(1));
    assert!(rt; played.account(1)?.drained == played.stage.taken(ANSWER_OF_1));
    Ok(())
}

/// While no turn of the first route is made its inbox fills with 16 datagrams. It is asked to close then, and two routes
/// open, one of them with its name. The other one is served, and the name stays with the first route.
const FULL_INBOX: &[Step] = &[
    Step::Fill(CALLS_STUDIO),
    Step::Change(&[0], &[NEW_STUDIA, NEW_STUDIO]),
    Step::Rest,
    Step::Call(SECOND_CALLS_STUDIA, SECOND_ANSWER_OF_1),
    Step::Fill(CALLS_STUDIO),
    Step::Free,
    Step::Call(CALLS_STUDIO, ANSWER_OF_2),
    Step::Hear(SHUTDOWN),
    Step::Rest,
];

#[test]
fn a_route_closes_once_its_inbox_has_room(rt: HostRuntime) -> Result<(), Fail> {
    let alloc = rt.alloc();
    let stage = Stage::open(alloc, 7)?;
    let (one, other) = (Arc::try_clone(&stage)?, Arc::try_clone(&stage)?);
    let gates = Gates {
        poller: None,
        workers: vec![in alloc; Barrier { stage: one }, Barrier { stage: other }]?,
    };
    let played = play(&rt, stage, FULL_INBOX, gates, &[Ok(1)])?;
    assert_eq!(rt; played.ran.accounts.len(), 3);
    assert!(rt; played.ran.report.full >= 2 * FULL);
    assert!(rt; played.stage.taken(UNKNOWN) == 1 && played.stage.taken(SHUTDOWN) == 1);
    let answers = played.stage.taken(ANSWER_OF_0);
    assert!(rt; answers >= 16 && played.account(0)?.drained == answers.saturating_add(1));
    assert!(rt; played.account(1)?.drained == played.stage.taken(SECOND_ANSWER_OF_1));
    assert!(rt; played.account(2)?.drained == played.stage.taken(ANSWER_OF_2));
    Ok(())
}

/// One route takes the place of the one before, until no index is left. The last one stays open, as the refused change
/// closes nothing.
const USES_ALL: &[Step] = &[
    Step::Renew,
    Step::Rest,
    Step::Call(CALLS_STUDIA, ANSWER_OF_510),
    Step::Rest,
];

#[test]
fn all_indexes_are_used_once(rt: HostRuntime) -> Result<(), Fail> {
    let mut outcomes = Vec::with_capacity(rt.alloc(), 511)?;
    for index in 1..511usize {
        outcomes.push(Ok(index))?;
    }
    outcomes.push(Err(ChangeFault::NoIndexLeft(0)))?;
    let played = play_ungated(&rt, USES_ALL, outcomes.as_slice())?;
    assert_eq!(rt; played.ran.accounts.len(), 511);
    let accepted = played.ran.report.accepted;
    played.assert_account(&rt, 510, accepted, played.stage.taken(ANSWER_OF_510))
}
