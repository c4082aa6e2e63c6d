//! A run of the gateway, from the opening of its routes to their accounts.

ghost use Rattle.std.specs.Prelude.{◌≡◌, ◌↔◌, ◌⊎◌, ◌<◌, ◌≤◌, ◌^◌, true, false, None, Err, List, [], ◌++◌, map, length, take};
ghost use Rattle.std.specs.Prelude.{IfOk, IfErr, IfSome, IfNone, OnOk, IsSome};
ghost use Rattle.std.specs.Vec.{vec_len, vec_capacity};
ghost use Rattle.srt_types.specs.Terms.{terms_of};
ghost use Rattle.srt_cookie.specs.Cookie.{secret_bytes};
ghost use Rattle.srt_lobby.specs.Lobby.{class_of};
ghost use Rattle.srt_lobby.specs.Names.{names_of};
ghost use Rattle.srt_lobby.specs.Opening.{fault_of};
ghost use Rattle.srt_lobby.specs.Changing.{AreHidden};
ghost use Rattle.srt_mailbox.specs.Cells.{CellIdentity};
ghost use Rattle.srt_mailbox.specs.Ends.{Producer};
ghost use Rattle.srt_mailbox.specs.Identities.{identity_in};
ghost use Rattle.srt_mailbox.specs.Places.{arrived, locks_of};
ghost use Rattle.srt_poller.specs.Devices.{heard, carried};
ghost use Rattle.srt_poller.specs.Openings.{NewRoute, names_in, ends_in, route_reports, route_reports_more};
ghost use Rattle.srt_serve.specs.NamesAtStart.{later_hidden, first_names};
ghost use Rattle.srt_wakeups.specs.Marks.{IsFor};
ghost use Rattle.srt_serve.specs.inside.Did.{Did};
ghost use Rattle.srt_serve.specs.inside.Looking.{AreReported};
ghost use Rattle.srt_serve.specs.inside.Notices.{AreFor};
ghost use Rattle.srt_serve.specs.inside.Reaching.{HasNotReached};
ghost use Rattle.srt_serve.specs.inside.Reporting.{WereRecorded};
ghost use Rattle.srt_serve.specs.inside.Polled.{AreReady};
ghost use Rattle.srt_serve.specs.Opened.{AreOpened, terms_in, new_clocks};
ghost use Rattle.srt_serve.specs.Settled.{AreLastShown};
ghost use Rattle.srt_supervision.specs.Answers.{RunEnds};
ghost use Rattle.srt_serve.specs.Ran.{recorded_by, RanChanging, Ran as TheRan};

use crate::answers::{AnswersOf, Beginning};
use crate::arrivals::{ClockArrivals, NameAttachment, PollerArrivals, RouteNotices, open_places};
use crate::evidence::{NothingWaits, WatcherAwaited, await_watcher};
use crate::opening::{Opened, open_routes};
use crate::serving::{OtherThreads, PollerState, RunContext, ThreadsEnded, serve_routes};
use crate::settling::{Busy, began_with, reached_all, settle_routes};
use crate::ticking::{Clocks, Ticker, take_new};
use crate::watcher_channel::WatcherChannel;
use crate::watching::{Viewer, report_refusals};
use srt_cookie::Secret;
use srt_lobby::Names;
use srt_mailbox::{Account, Attachment, ClockEnd, Gate, NoneSeated, Place, Seat, SeatReader};
use srt_poller::{Ends, Openings, Source, Wire};
use srt_supervision::{Answers, NoWatcher, Report, Watch};
use srt_types::product_limits::MAX_ROUTES;
use srt_types::{Entry, Schedule};
use srt_wakeups::Wakeups;
use std::alloc::{AllocError, Global};
use std::marker::Brand;
use std::sync::{OnceToken, Wait};
use std::thread::Threads;
use thiserror::Error;

/// Why a run failed. Its text is the line that the program prints.
#[derive(Clone, Copy, Debug, Error, PartialEq, Eq)]
pub enum RunFault {
    /// Out of memory. Nothing was read.
    #[error("memory")]
    OutOfMemory,
    /// A thread could not be started, or wasn't running after ten seconds. Nothing was read, and the threads that were
    /// started have ended.
    #[error("thread fault")]
    Thread,
    /// A route could not be settled, since another call had claimed it. Datagrams were read and sent, but there are no
    /// report and no final counters.
    #[error("busy")]
    Busy,
}

/// A gate for each thread that serves routes.
#[derive(Drop)]
pub struct Gates<G: Drop> {
    /// The polling thread's, which serves the routes of what it has just read, if that is little. `None` leaves all
    /// routes to the workers.
    pub poller: Option<G>,
    /// The workers', 1 to 16.
    pub workers: Vec<G>,
}

/// The outcome of a run that nobody watched.
#[derive(Drop)]
pub struct Ran<K: Drop> {
    /// The counts of the poller.
    pub report: Report,
    /// An account of each route, in the order of their indexes.
    pub accounts: Vec<Account>,
    /// The ticker that `run` was given, after its last moment.
    pub ticker: K,
}

/// The outcome of a run that was watched.
#[derive(Drop)]
pub struct Watched<K: Drop, T: Drop> {
    /// The counts of the poller.
    pub report: Report,
    /// The number of rounds that were made.
    pub rounds: u64,
    /// An account of each route, in the order of their indexes.
    pub accounts: Vec<Account>,
    /// The ticker that `run_until` was given, after its last moment.
    pub ticker: K,
    /// The watcher that it was given, after it saw each route once more.
    pub watch: T,
    // evidence that no refusal waited any more; none if many did
    reported: Option<NothingWaits>,
}

/// What a watched run is to do.
#[derive(Clone, Copy)]
pub struct RunPlan<'a> {
    /// The secret of the lobby's cookies.
    pub secret: &'a Secret,
    /// The routes with which it begins. They must be valid as a whole: names distinct, numbers within their limits.
    pub entries: &'a [Entry],
    /// The rounds in which each of them opens and closes, in the same order.
    pub schedules: &'a [Schedule],
    /// The most rounds of its poller, 2^48 at most.
    pub rounds: u64,
}

/// What the threads of a run other than the polling one work with.
#[derive(Drop)]
pub struct Crew<K: Drop, G: Drop, T: Drop> {
    /// The ticking thread's.
    pub ticker: K,
    /// Those of the workers, and perhaps one of the polling thread.
    pub gates: Gates<G>,
    /// The watching thread's.
    pub watch: T,
}

// What wakes the threads of a run.
#[derive(Drop)]
struct OpenedWakeups {
    wakeups: Wakeups,
    // evidence that the watching thread is awaited; none if the run isn't watched
    awaited: Option<WatcherAwaited>,
}

// What the threads of a run share. It is opened before any of them is started.
#[derive(Drop)]
struct Shared<A: Answers + Beginning>
where
    NameAttachment<A>: Attachment,
{
    places: Vec<Place<NameAttachment<A>>>,
    notices: RouteNotices<A>,
    wakeups: OpenedWakeups,
    // none if the run isn't watched
    channel: Option<WatcherChannel<A>>,
}

// What a run allocates besides its routes and what its threads share.
#[derive(Drop)]
struct Prepared {
    names: Names,
    // room for those of all routes
    accounts: Vec<Account>,
}

// The task of a run.
#[derive(Clone, Copy)]
struct Task<'a> {
    secret: &'a Secret,
    // the routes with which it begins, and their schedules
    entries: &'a [Entry],
    schedules: &'a [Schedule],
    // the most rounds; their number if the run isn't watched
    rounds: u64,
    is_watched: bool,
}

// What the end of a run uses.
#[derive(Drop)]
struct Ending<'a, A: Answers + Beginning>
where
    NameAttachment<A>: Attachment,
{
    // of each place, which route it was given before any thread was started
    put: Vec<OnceToken<'a, Seat<NameAttachment<A>>>>,
    // none, and room for those of all routes
    accounts: Vec<Account>,
}

// Hides the routes that open later than in the first round.
fn hide_later(names: &mut Names, schedules: &[Schedule])
    requires { length schedules.now ≡ length (names_of names.old) }
    ensures { names_of names.new ≡ later_hidden schedules.now (names_of names.old) }
{
    for r in 0..schedules.len() {
        if schedules[r].open_round != 0 {
            names.hide(r);
        }
    }
}

// Evidence that the watching thread is awaited, if the run is watched.
fn await_watching(wakeups: &Wakeups, is_watched: bool) -> Option<WatcherAwaited>
    ensures { IsSome result ↔ (is_watched ≡ true) }
{
    if is_watched {
        Some(await_watcher(wakeups))
    } else {
        None
    }
}

fn open_wakeups(
    alloc: Global,
    routes: usize,
    workers: usize,
    is_watched: bool,
) -> Result<OpenedWakeups, AllocError>
    ensures wakeups { IfOk result (λ opened. IsFor routes workers opened.wakeups) }
    ensures awaited { IfOk result (λ opened. IsSome opened.awaited ↔ (is_watched ≡ true)) }
{
    let wakeups = Wakeups::open(alloc, routes, workers)?;
    let awaited = await_watching(&wakeups, is_watched);
    Ok(OpenedWakeups { wakeups, awaited })
}

fn open_channel<A: Answers>(
    alloc: Global,
    is_watched: bool,
) -> Result<Option<WatcherChannel<A>>, AllocError>
    ensures { IfOk result (λ channel. IsSome channel ↔ (is_watched ≡ true)) }
{
    if is_watched {
        let channel = WatcherChannel::open(alloc)?;
        Ok(Some(channel))
    } else {
        Ok(None)
    }
}

// Opens what the threads share, for a run that begins with this many routes.
fn open_shared<A: Answers + Beginning>(
    alloc: Global,
    first: usize,
    workers: usize,
    is_watched: bool,
) -> Result<Shared<A>, AllocError>
    ensures channel { IfOk result (λ s. IsSome s.channel ↔ (is_watched ≡ true)) }
    ensures places { IfOk result (λ s. is_watched ≡ true → length s.places.items ≡ 511) }
    ensures first { IfOk result (λ s. is_watched ≡ false → length s.places.items ≡ first) }
    ensures notices { IfOk result (λ s. AreFor (length s.places.items) s.notices) }
    ensures wakeups { IfOk result (λ s. IsFor (length s.places.items) workers s.wakeups.wakeups) }
    ensures awaited { IfOk result (λ s. IsSome s.wakeups.awaited ↔ (is_watched ≡ true)) }
{
    let routes = if is_watched { MAX_ROUTES } else { first };
    Ok(Shared {
        places: open_places(alloc, routes)?,
        notices: RouteNotices::open(alloc, routes)?,
        wakeups: open_wakeups(alloc, routes, workers, is_watched)?,
        channel: open_channel(alloc, is_watched)?,
    })
}

// Allocates the names, hides those of later routes, and makes room for final counters.
fn prepare(alloc: Global, entries: &[Entry], schedules: &[Schedule]) -> Result<Prepared, AllocError>
    requires { length schedules.now ≡ length entries.now }
    ensures names { IfOk result (λ p. names_of p.names ≡ first_names schedules.now (map terms_of entries.now)) }
    ensures accounts { IfOk result (λ p. (p.accounts.items ≡ []) × (511 ≤ vec_capacity p.accounts)) }
{
    let Ok(mut names) = Names::open(alloc, entries) else {
        return Err(AllocError);
    };
    hide_later(&mut names, schedules);
    Ok(Prepared {
        names,
        accounts: Vec::with_capacity(alloc, MAX_ROUTES)?,
    })
}

// Takes the poller's ends of all routes that were added since its last round, as long as there is room for them. None are
// taken if the run isn't watched.
fn take_late<A: Answers, O: Openings>(
    channel: Option<&WatcherChannel<A>>,
    ends: &mut Vec<Ends>,
    openings: &mut O,
)
    ensures all { IsSome channel.entry → O.no_more openings.new ⊎ (vec_capacity ends.old ≤ length ends.new.items) }
    ensures taken { (more : List NewRoute) × ((more ≡ []) ⊎ IsSome channel.entry) × AreHidden (names_in more)
        × (route_reports (O.added openings.new) (O.requested openings.new) ≡ route_reports_more
        (route_reports (O.added openings.old) (O.requested openings.old)) more [])
        × (ends.new.items ≡ ends.old.items ++ ends_in more) }
{
    let Some(_) = channel else {
        return;
    };
    for at in ends.len()..ends.capacity() {
        let Some(newcomer) = openings.next() else {
            return;
        };
        let Ok(()) = ends.push(newcomer.ends) else {
            unreachable!();
        };
    }
}

// Why the routes of a run can't be settled.
#[derive(Drop)]
enum NotReached {
    // the polling thread's reader hasn't reached all with which the run began, or it has reached too many
    Began(Busy),
    // the ticking thread's hasn't reached all of these, with evidence that it found no further one; none if there was no room
    Behind(Option<NoneSeated>),
}

// After all threads have ended: takes the clock's ends of the routes that were added since its last tick. Fails if the
// polling thread's reader hasn't reached all routes with which the run began, or the ticking thread's all that the polling
// thread's has, or if these are more than 511.
fn come_to_all<'a, K: Drop, A: Answers + Beginning>(
    put: &Vec<OnceToken<'a, Seat<NameAttachment<A>>>>,
    routes: &SeatReader<'a, NameAttachment<A>>,
    clocks: &mut Clocks<K, ClockEnd, ClockArrivals<'a, A>>,
) -> Result<(), NotReached>
    requires put { map (λ t. t.of) put.now.items ≡ take (length put.now.items) (locks_of routes.now) }
    requires places { locks_of clocks.old.arrivals.reader ≡ locks_of routes.now }
    ensures began { OnOk result ((more : List CellIdentity) × (arrived routes.now ≡ map (λ t. identity_in t.value.cell) put.now.items ++ more)) }
    ensures few { OnOk result (length (arrived routes.now) ≤ 511) }
    ensures taken { OnOk result ((more : List Producer)
        × (new_clocks (arrived clocks.new.arrivals.reader) ≡ new_clocks (arrived clocks.old.arrivals.reader) ++ more)
        × (clocks.new.ends.items ≡ clocks.old.ends.items ++ more)) }
    ensures all { OnOk result ((more : List CellIdentity) × (arrived clocks.new.arrivals.reader ≡ arrived routes.now ++ more)) }
    ensures busy { IfErr result (λ _. (length (arrived routes.now) < length put.now.items) ⊎ (511 < length (arrived routes.now))
        ⊎ (length (arrived clocks.new.arrivals.reader) < length (arrived routes.now))) }
    ensures cause { IfErr result (HasNotReached (length put.now.items) (length (arrived routes.now))
        (vec_capacity clocks.old.ends) (length clocks.new.ends.items)) }
    ensures ticker { clocks.new.ticker ≡ clocks.old.ticker }
{
    match began_with(routes, put) {
        Ok(()) => {}
        Err(busy) => return Err(NotReached::Began(busy)),
    }
    let none = take_new(&mut clocks.ends, &mut clocks.arrivals);
    match reached_all(routes, &clocks.arrivals.reader) {
        Ok(()) => Ok(()),
        Err(_) => Err(NotReached::Behind(none)),
    }
}

// Reports the refusals that still wait, each once, if the run is watched. `None` if many did.
fn report_last<R: Wait, A: Answers, T: Watch>(
    rt: &R,
    channel: Option<&WatcherChannel<A>>,
    watch: &mut T,
) -> Option<NothingWaits>
    ensures reported { IsSome channel.entry → IfNone result (AreReported T.told 1024) }
    ensures recorded { IsSome channel.entry → WereRecorded (T.refusals watch.old) (T.refusals watch.new) result }
    ensures kept { channel.entry ≡ None → watch.new ≡ watch.old }
{
    match channel {
        Some(channel) => report_refusals(rt, channel, watch),
        None => None,
    }
}

// Why a run whose threads weren't all running has ended: what hindered its workers, or else another thread.
fn start_fault(ended: &Option<ThreadsEnded>) -> RunFault
    ensures workers { IfSome ended.now (λ e. IfErr e.crew.workers (λ unstarted. result ≡ unstarted.fault)) }
    ensures others { IfSome ended.now (λ e. IfOk e.crew.workers (λ _. result ≡ RunFault.Thread)) }
    ensures none { IfNone ended.now (result ≡ RunFault.Thread) }
{
    let Some(threads) = ended else {
        return RunFault::Thread;
    };
    match &threads.crew.workers {
        Ok(_) => RunFault::Thread,
        Err(unstarted) => unstarted.fault,
    }
}

// As `run_over`, over the routes with which the run begins.
#[tactic(auto, unfolding(crate::specs::inside::Polled::AreUntouched))]
fn run_opened<'a, R, S: Source, W: Wire, K, G, T, B>(
    context: &RunContext<'a, R, Place<NameAttachment<AnswersOf<T, B>>>, AnswersOf<T, B>>,
    source: &mut S,
    wire: &mut W,
    mut polling: PollerState<G, PollerArrivals<'a, 'a, AnswersOf<T, B>>>,
    mut others: OtherThreads<Clocks<K, ClockEnd, ClockArrivals<'a, AnswersOf<T, B>>>, G, T>,
    ending: Ending<'a, AnswersOf<T, B>>,
) -> Result<Watched<K, T>, RunFault>
where
    R: Threads + Wait + Sync,
    K: Ticker + Send + Drop,
    G: Gate + Send + Drop,
    T: Watch + Send + Drop,
    B: Beginning + Send + Sync,
    requires ready { AreReady context.now.schedules.now (names_of polling.names) polling.ends.items }
    requires room { IsSome context.now.channel → 511 ≤ vec_capacity polling.ends }
    requires clock_room { IsSome context.now.channel → 511 ≤ vec_capacity others.clocks.ends }
    requires requests { 511 ≤ vec_capacity polling.openings.requested }
    requires few { context.now.rounds ≤ 2 ^ 48 }
    requires routes { length (terms_in (arrived polling.openings.reader)) ≤ 511 }
    requires first { length (arrived polling.openings.reader) ≡ B.first }
    requires begins { context.now.routes ≡ B.first }
    requires names { names_of polling.names ≡ first_names context.now.schedules.now (terms_in (arrived polling.openings.reader)) }
    requires opened { AreOpened (arrived polling.openings.reader) polling.ends.items }
    requires clocks { others.clocks.ends.items ≡ new_clocks (arrived others.clocks.arrivals.reader) }
    requires places { locks_of others.clocks.arrivals.reader ≡ locks_of polling.openings.reader }
    requires put { (map (λ t. t.of) ending.put.items ≡ take (length ending.put.items) (locks_of polling.openings.reader))
        × (map (λ t. identity_in t.value.cell) ending.put.items ≡ arrived polling.openings.reader) }
    requires accounts { (ending.accounts.items ≡ []) × (511 ≤ vec_capacity ending.accounts) }
    ensures ran { Did (IsSome context.now.channel) T.answered (class_of (secret_bytes context.now.secret.now))
        context.now.schedules.now (terms_in (arrived polling.entry.openings.reader))
        (recorded_by (heard (S.gave source.old) (S.calls source.old)) (carried (W.handed wire.old) (W.attempts wire.old)) (K.gave others.entry.clocks.ticker))
        (λ ticker. recorded_by (heard (S.gave source.new) (S.calls source.new)) (carried (W.handed wire.new) (W.attempts wire.new)) (K.gave ticker)) result }
    ensures rounds { IfOk result (λ r. (r.rounds ≤ context.now.rounds) × ((r.rounds ≡ context.now.rounds) ⊎ T.answered RunEnds)) }
    ensures shown { IsSome context.now.channel → IfOk result (λ r. AreLastShown T.shown 0 r.accounts.items) }
    ensures reported { IsSome context.now.channel → IfOk result (λ r. IfNone r.reported (AreReported T.told 1024)) }
    ensures unread { (result ≡ Err RunFault.OutOfMemory) ⊎ (result ≡ Err RunFault.Thread) → (source.new ≡ source.old) × (wire.new ≡ wire.old) }
{
    let Some(pumping) = serve_routes(context, source, wire, &mut polling, &mut others) else {
        return Err(start_fault(&others.ended));
    };
    let PollerState {
        mut ends,
        mut openings,
        ..
    } = polling;
    let OtherThreads {
        mut clocks,
        mut watch,
        ..
    } = others;
    take_late(context.channel, &mut ends, &mut openings);
    let routes = openings.reader;
    let Ok(()) = come_to_all(&ending.put, &routes, &mut clocks) else {
        return Err(RunFault::Busy);
    };
    let Clocks {
        ends: clocks,
        ticker,
        ..
    } = clocks;
    let rt = context.rt;
    let mut viewer = Viewer::new(&mut watch, context.channel.is_some());
    let Ok(accounts) = settle_routes(rt, &routes, ends, clocks, ending.accounts, &mut viewer) else {
        return Err(RunFault::Busy);
    };
    let reported = report_last(rt, context.channel, &mut watch);
    Ok(Watched {
        report: pumping.report,
        rounds: pumping.rounds,
        accounts,
        ticker,
        watch,
        reported,
    })
}

// As `run_with`, over what its threads share and what was prepared: opens the routes.
fn run_over<'a, R, S: Source, W: Wire, K, G, T, B>(
    context: &RunContext<'a, R, Place<NameAttachment<AnswersOf<T, B>>>, AnswersOf<T, B>>,
    entries: &[Entry],
    source: &mut S,
    wire: &mut W,
    crew: Crew<K, G, T>,
    prepared: Prepared,
) -> Result<Watched<K, T>, RunFault>
where
    R: Threads + Wait + Sync,
    K: Ticker + Send + Drop,
    G: Gate + Send + Drop,
    T: Watch + Send + Drop,
    B: Beginning + Send + Sync,
    requires entries { fault_of (map terms_of entries.now) ≡ None }
    requires schedules { length context.now.schedules.now ≡ length entries.now }
    requires few { context.now.rounds ≤ 2 ^ 48 }
    requires first { length entries.now ≡ B.first }
    requires begins { context.now.routes ≡ B.first }
    requires names { names_of prepared.names ≡ first_names context.now.schedules.now (map terms_of entries.now) }
    requires accounts { (prepared.accounts.items ≡ []) × (511 ≤ vec_capacity prepared.accounts) }
    requires places { IsSome context.now.channel → length context.now.cells.now ≡ 511 }
    ensures ran { Did (IsSome context.now.channel) T.answered (class_of (secret_bytes context.now.secret.now))
        context.now.schedules.now (map terms_of entries.now)
        (recorded_by (heard (S.gave source.old) (S.calls source.old)) (carried (W.handed wire.old) (W.attempts wire.old)) (K.gave crew.ticker))
        (λ ticker. recorded_by (heard (S.gave source.new) (S.calls source.new)) (carried (W.handed wire.new) (W.attempts wire.new)) (K.gave ticker)) result }
    ensures rounds { IfOk result (λ r. (r.rounds ≤ context.now.rounds) × ((r.rounds ≡ context.now.rounds) ⊎ T.answered RunEnds)) }
    ensures shown { IsSome context.now.channel → IfOk result (λ r. AreLastShown T.shown 0 r.accounts.items) }
    ensures unread { (result ≡ Err RunFault.OutOfMemory) ⊎ (result ≡ Err RunFault.Thread) → (source.new ≡ source.old) × (wire.new ≡ wire.old) }
{
    let RunContext {
        alloc,
        cells,
        notices,
        ..
    } = *context;
    let Ok(opened) = open_routes(alloc, entries, cells) else {
        return Err(RunFault::OutOfMemory);
    };
    let Opened {
        routes,
        ends,
        arrivals,
        clocks,
        put,
    } = opened;
    let Ok(openings) = PollerArrivals::new(alloc, routes, notices, MAX_ROUTES) else {
        return Err(RunFault::OutOfMemory);
    };
    let Prepared { names, accounts } = prepared;
    let Crew {
        ticker,
        gates,
        watch,
    } = crew;
    let Gates { poller, workers } = gates;
    let polling = PollerState {
        names,
        ends,
        openings,
        gate: poller,
        arrived: None,
        missing: None,
        ended: None,
    };
    let others = OtherThreads {
        clocks: Clocks {
            ends: clocks,
            arrivals,
            ticker,
        },
        gates: workers,
        watch,
        ended: None,
    };
    let ending = Ending { put, accounts };
    run_opened(context, source, wire, polling, others, ending)
}

// Runs the gateway as `run` and `run_until` do. If it isn't watched, the watcher is never called.
fn run_with<'a, R, S: Source, W: Wire, K, G, T, B>(
    rt: &'a R,
    alloc: Global,
    task: Task<'a>,
    source: &mut S,
    wire: &mut W,
    crew: Crew<K, G, T>,
) -> Result<Watched<K, T>, RunFault>
where
    R: Threads + Wait + Sync,
    K: Ticker + Send + Drop,
    G: Gate + Send + Drop,
    T: Watch + Send + Drop,
    B: Beginning + Send + Sync,
    requires entries { fault_of (map terms_of task.entries.now) ≡ None }
    requires schedules { length task.schedules.now ≡ length task.entries.now }
    requires workers { (1 ≤ vec_len crew.gates.workers) × (vec_len crew.gates.workers ≤ 16) }
    requires first { length task.entries.now ≡ B.first }
    requires few { task.rounds ≤ 2 ^ 48 }
    ensures ran { Did (task.entry.is_watched ≡ true) T.answered (class_of (secret_bytes task.entry.secret.now))
        task.entry.schedules.now (map terms_of task.entry.entries.now)
        (recorded_by (heard (S.gave source.old) (S.calls source.old)) (carried (W.handed wire.old) (W.attempts wire.old)) (K.gave crew.ticker))
        (λ ticker. recorded_by (heard (S.gave source.new) (S.calls source.new)) (carried (W.handed wire.new) (W.attempts wire.new)) (K.gave ticker)) result }
    ensures rounds { IfOk result (λ r. (r.rounds ≤ task.entry.rounds) × ((r.rounds ≡ task.entry.rounds) ⊎ T.answered RunEnds)) }
    ensures shown { task.entry.is_watched ≡ true → IfOk result (λ r. AreLastShown T.shown 0 r.accounts.items) }
    ensures unread { (result ≡ Err RunFault.OutOfMemory) ⊎ (result ≡ Err RunFault.Thread) → (source.new ≡ source.old) × (wire.new ≡ wire.old) }
{
    let Task {
        secret,
        entries,
        schedules,
        is_watched,
        ..
    } = task;
    let Ok(prepared) = prepare(alloc, entries, schedules) else {
        return Err(RunFault::OutOfMemory);
    };
    let workers = crew.gates.workers.len();
    let Ok(shared) = open_shared::<AnswersOf<T, B>>(alloc, entries.len(), workers, is_watched)
    else {
        return Err(RunFault::OutOfMemory);
    };
    let Shared {
        places,
        notices,
        wakeups,
        channel,
    } = shared;
    let OpenedWakeups { wakeups, .. } = wakeups;
    let watcher = channel.as_ref();
    let context = RunContext {
        rt,
        alloc,
        secret,
        schedules,
        cells: places.as_slice(),
        routes: entries.len(),
        notices: &notices,
        wakeups: &wakeups,
        channel: watcher,
        rounds: task.rounds,
    };
    run_over(&context, entries, source, wire, crew, prepared)
}

/// Runs the gateway of these entries for `rounds` rounds of its poller, and returns the poller's report and the final
/// counters of each route. The entries must be valid as a whole: names distinct, numbers within their limits. `schedules`
/// has a schedule for each entry, and `gates` a gate for each worker, 1 to 16, and perhaps one for the polling thread.
///
/// First all routes are opened, also those that clients find in a later round. This allocates all memory but that of
/// threads and of arriving datagrams. The names of later routes are hidden until their round. Then one thread for each
/// worker and one ticking thread are started. Once all of them run, the calling thread polls the source and the wire,
/// and opens and closes routes at the beginning of each round; the ticking thread offers a tick to all routes, hidden ones
/// too, at each time that the ticker returns; and the workers serve all of them. After the rounds all threads end, and
/// each route is settled. A ticker that waits delays that end.
pub fn run<R, S: Source, W: Wire, K, G>(
    rt: &R,
    alloc: Global,
    secret: &Secret,
    entries: &[Entry],
    schedules: &[Schedule],
    source: &mut S,
    wire: &mut W,
    ticker: K,
    gates: Gates<G>,
    rounds: u32,
) -> Result<Ran<K>, RunFault>
where
    R: Threads + Wait + Sync,
    K: Ticker + Send + Drop,
    G: Gate + Send + Drop,
    requires entries { fault_of (map terms_of entries.now) ≡ None }
    requires schedules { length schedules.now ≡ length entries.now }
    requires workers { (1 ≤ vec_len gates.workers) × (vec_len gates.workers ≤ 16) }
    ensures ran { IfOk result (λ r. TheRan (class_of (secret_bytes secret.now)) schedules.now (map terms_of entries.now) rounds
        (recorded_by (heard (S.gave source.old) (S.calls source.old)) (carried (W.handed wire.old) (W.attempts wire.old)) (K.gave ticker))
        (recorded_by (heard (S.gave source.new) (S.calls source.new)) (carried (W.handed wire.new) (W.attempts wire.new)) (K.gave r.ticker))
        r.report r.accounts.items) }
    ensures unread { (result ≡ Err RunFault.OutOfMemory) ⊎ (result ≡ Err RunFault.Thread) → (source.new ≡ source.old) × (wire.new ≡ wire.old) }
{
    let task = Task {
        secret,
        entries,
        schedules,
        rounds: rounds as u64,
        is_watched: false,
    };
    let crew = Crew {
        ticker,
        gates,
        watch: NoWatcher,
    };
    match run_with::<_, _, _, _, _, _, Brand>(rt, alloc, task, source, wire, crew) {
        Ok(watched) => {
            let Watched {
                report,
                accounts,
                ticker,
                ..
            } = watched;
            Ok(Ran {
                report,
                accounts,
                ticker,
            })
        }
        Err(fault) => Err(fault),
    }
}

/// As `run`, until the watcher orders the poller to end, and for at most `plan.rounds` rounds. The watcher's
/// latest order holds for each round: in a round that closes all, no route opens, and Close is offered to each visible one.
///
/// A further thread watches. It repeats these steps: it lets the watcher rest (`Watch::next`), reports the refusals, and
/// shows it the routes if it wants them. After all threads have ended each route is shown once more, as it is after its last
/// turn, and settled, and then the remaining refusals are reported. After each rest the watcher may change the routes too
/// (`Watch::change_routes`): those that open get the next of the 511 indexes, and clients find them from one of the next
/// rounds on, once no other visible route has their name; those that close are offered Close from then on. The threads end whatever the
/// watcher does; but one that rests for long delays that, as a ticker that waits does.
///
/// The accounts are those of all routes, in the order of their indexes: of the entries, and of the routes that opened. One
/// that the watching thread opens after the poller took routes for the last time is among them: no caller found it, so
/// that its inbox got ticks at most.
pub fn run_until<R, S: Source, W: Wire, K, G, T>(
    rt: &R,
    alloc: Global,
    plan: RunPlan,
    source: &mut S,
    wire: &mut W,
    crew: Crew<K, G, T>,
) -> Result<Watched<K, T>, RunFault>
where
    R: Threads + Wait + Sync,
    K: Ticker + Send + Drop,
    G: Gate + Send + Drop,
    T: Watch + Send + Drop,
    requires entries { fault_of (map terms_of plan.entries.now) ≡ None }
    requires schedules { length plan.schedules.now ≡ length plan.entries.now }
    requires workers { (1 ≤ vec_len crew.gates.workers) × (vec_len crew.gates.workers ≤ 16) }
    requires few { plan.rounds ≤ 2 ^ 48 }
    ensures ran { IfOk result (λ r. RanChanging T.answered
        (class_of (secret_bytes plan.entry.secret.now)) plan.entry.schedules.now (map terms_of plan.entry.entries.now) r.rounds
        (recorded_by (heard (S.gave source.old) (S.calls source.old)) (carried (W.handed wire.old) (W.attempts wire.old)) (K.gave crew.ticker))
        (recorded_by (heard (S.gave source.new) (S.calls source.new)) (carried (W.handed wire.new) (W.attempts wire.new)) (K.gave r.ticker))
        r.report r.accounts.items) }
    ensures rounds { IfOk result (λ r. (r.rounds ≤ plan.entry.rounds) × ((r.rounds ≡ plan.entry.rounds) ⊎ T.answered RunEnds)) }
    ensures shown { IfOk result (λ r. AreLastShown T.shown 0 r.accounts.items) }
    ensures unread { (result ≡ Err RunFault.OutOfMemory) ⊎ (result ≡ Err RunFault.Thread) → (source.new ≡ source.old) × (wire.new ≡ wire.old) }
{
    let task = Task {
        secret: plan.secret,
        entries: plan.entries,
        schedules: plan.schedules,
        rounds: plan.rounds,
        is_watched: true,
    };
    run_with::<_, _, _, _, _, _, Brand>(rt, alloc, task, source, wire, crew)
}

#[cfg(test)]
mod tests;
