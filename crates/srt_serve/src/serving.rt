//! Starts the threads of a run, and joins them.

ghost use Rattle.std.specs.Prelude.{◌≡◌, ◌≤◌, ◌^◌, None, [], IfOk, IfSome, IfNone, IsSome, length};
ghost use Rattle.srt_cookie.specs.Cookie.{secret_bytes};
ghost use Rattle.srt_lobby.specs.Lobby.{class_of};
ghost use Rattle.srt_lobby.specs.Names.{names_of};
ghost use Rattle.srt_poller.specs.Devices.{heard, carried};
ghost use Rattle.std.specs.Vec.{vec_capacity};
ghost use Rattle.srt_poller.specs.Openings.{route_reports};
ghost use Rattle.srt_poller.specs.Pumped.{before, after};
ghost use Rattle.srt_supervision.specs.Answers.{Answer, AllClose, RunEnds};
ghost use Rattle.srt_serve.specs.inside.Ended.{AreNumbered, HaveEnded};
ghost use Rattle.srt_serve.specs.inside.Polled.{AreReady, Polled, AreUntouched};

use crate::answers::Beginning;
use crate::arrivals::{NameAttachment, RouteNotices};
use crate::evidence::{
    AllArrived, NotStarted, RouteHost, RunEnded, RunOver, ThreadsMissing, end_after, end_unstarted,
    gather,
};
use crate::inline_serving::InlineServer;
use crate::known::Known;
use crate::running::RunFault;
use crate::ticking::Clockwork;
use crate::watcher_channel::WatcherChannel;
use crate::watching::{Changer, watch_routes};
use crate::working::{WorkerEnded, work};
use srt_cookie::Secret;
use srt_lobby::Names;
use srt_mailbox::{Gate, Seat, Serve};
use srt_poller::{
    DevicesOf, Ends, Openings, PollerTask, Pumping, Source, Wire, pump_changing, pump_under,
};
use srt_supervision::{Answers, Watch};
use srt_types::Schedule;
use srt_wakeups::{ThreadName, Wakeups, name_thread};
use std::alloc::Global;
use std::marker::PhantomData;
use std::sync::Wait;
use std::thread::{Promise, PromisedHandle, Threads, join_mut};
use std::{mem, thread};

/// What the threads of a run use besides what each has for itself.
#[derive(Drop)]
pub struct RunContext<'a, R, C, A: Answers> {
    /// The host, which starts threads.
    pub rt: &'a R,
    /// Allocates what threads need, and copies of datagrams.
    pub alloc: Global,
    /// The secret of the lobby's cookies.
    pub secret: &'a Secret,
    /// The rounds in which each route opens and closes, in the order of their indexes.
    pub schedules: &'a [Schedule],
    /// The routes, which all workers serve.
    pub cells: &'a [C],
    /// How many of them the run begins with; the others are empty places.
    pub routes: usize,
    /// Notices of the watching thread to the polling one.
    pub notices: &'a RouteNotices<A>,
    /// Which routes may have work, and whether the run has ended.
    pub wakeups: &'a Wakeups,
    /// Between the polling thread and the watching one; none if the run isn't watched.
    pub channel: Option<&'a WatcherChannel<A>>,
    /// The most rounds of the poller; their number if the run isn't watched.
    pub rounds: u64,
}

/// What the polling thread has for itself: the routes as callers find them.
#[derive(Drop)]
pub struct PollerState<G: Drop, O: Drop> {
    /// The names of the routes, in the order of their indexes. A round makes them visible and hides them.
    pub names: Names,
    /// The poller's ends of all routes, in the same order. Room for 511 if the run is watched.
    pub ends: Vec<Ends>,
    /// The routes that are added, and those that are to close, if the run is watched.
    pub openings: O,
    /// The gate through which it serves routes, if it does. `serve_routes` takes it out.
    pub gate: Option<G>,
    /// Evidence that all threads had arrived, once it has polled. `serve_routes` puts it there.
    pub arrived: Option<AllArrived>,
    /// Evidence that some thread was missing, if one was. `serve_routes` puts it there.
    pub missing: Option<ThreadsMissing>,
    /// Evidence that the run was ended, after the rounds if any were made. `serve_routes` puts it there.
    pub ended: Option<RunEnded>,
}

/// What the threads besides the polling one have for themselves.
#[derive(Drop)]
pub struct OtherThreads<D: Drop, G: Drop, T: Drop> {
    /// The ticking thread's.
    pub clocks: D,
    /// A gate for each worker. `serve_routes` takes them out.
    pub gates: Vec<G>,
    /// The watching thread's, if the run is watched.
    pub watch: T,
    /// How these threads have ended. `serve_routes` puts it there.
    pub ended: Option<ThreadsEnded>,
}

/// The number that a worker was started with.
#[derive(Drop)]
pub struct NumberOf {
    number: usize,
}

impl Promise<WorkerEnded> for NumberOf {
    ghost use Rattle.std.specs.Prelude.{◌≡◌};

    ghost kept_by = { λ p w. w.number ≡ p.number };
}

// Waits until these workers have ended, whose numbers are those of their places.
fn join_workers<R: Threads>(
    rt: &R,
    handles: Vec<PromisedHandle<WorkerEnded, NumberOf>>,
    mut ended: Vec<WorkerEnded>,
) -> Vec<WorkerEnded>
    requires promised { AreNumbered (λ h. h.promise.number) handles.items }
    requires room { (ended.items ≡ []) × (length handles.items ≤ vec_capacity ended) }
    ensures { HaveEnded (length handles.items) result.items }
{
    let count = handles.len();
    let mut handles = handles.into_iter();
    for number in 0..count {
        let Some(handle) = handles.next() else {
            unreachable!();
        };
        let Ok(()) = ended.push(handle.join(rt)) else {
            unreachable!();
        };
    }
    ended
}

// Starts a worker for each gate, and waits until all have ended. If one can't be started, the run ends.
fn start_workers<R, G, C, A>(
    context: &RunContext<R, C, A>,
    gates: &mut Vec<G>,
) -> Result<Vec<WorkerEnded>, NotStarted>
where
    R: Threads + Wait + Sync,
    G: Gate + Send + Drop,
    C: Serve + Sync,
    A: Answers + Sync,
    ensures { IfOk result (λ ended. HaveEnded (length gates.old.items) ended.items) }
{
    let RunContext {
        rt,
        alloc,
        cells,
        wakeups,
        ..
    } = *context;
    let gates = mem::replace(gates, Vec::new(alloc));
    let count = gates.len();
    thread::scope(
        thread::scope_env(),
        rt,
        |scope| -> Result<Vec<WorkerEnded>, NotStarted>
            requires { count ≡ length gates.items }
            ensures { IfOk result (λ ended. HaveEnded count ended.items) }
        {
            let Ok(ended) = Vec::with_capacity(alloc, count) else {
                return Err(end_unstarted(wakeups, RunFault::OutOfMemory));
            };
            let mut handles = Vec::new(alloc);
            let mut gates = gates.into_iter();
            for number in 0..count {
                let Some(gate) = gates.next() else {
                    unreachable!();
                };
                let Ok(handle) = scope.spawn_with(NumberOf { number }, move || {
                    name_thread(ThreadName::Worker(number));
                    work(rt, cells, gate, number, wakeups)
                }) else {
                    return Err(end_unstarted(wakeups, RunFault::Thread));
                };
                let Ok(()) = handles.push(handle) else {
                    return Err(end_unstarted(wakeups, RunFault::OutOfMemory));
                };
            }
            Ok(join_workers(rt, handles, ended))
        },
    )
}

// Watches until the run has ended, if the run is watched.
fn watch_over<R: Wait, A: Answers + Beginning, C, T: Watch>(
    context: &RunContext<R, C, A>,
    watch: &mut T,
) -> Option<RunOver>
where
    C: Serve + RouteHost<Seat = Seat<NameAttachment<A>>>,
    requires answered { (a : Answer) → T.answered a → A.answered a }
    requires first { context.now.routes ≡ A.first }
    ensures { IfNone result (context.now.channel ≡ None) }
{
    name_thread(ThreadName::Watch);
    let Some(channel) = context.channel else {
        return None;
    };
    let changer = Changer {
        alloc: context.alloc,
        places: context.cells,
        notices: context.notices,
        routes: context.routes,
        of: PhantomData,
    };
    let mut known = Known::new();
    let over = watch_routes(
        context.rt,
        changer,
        context.wakeups,
        channel,
        watch,
        &mut known,
    );
    Some(known.end(over))
}

/// How the threads of a run have ended that serve routes, or watch.
#[derive(Drop)]
pub struct CrewEnded {
    /// Of each worker, in the order of their numbers; or evidence that one couldn't be started.
    pub workers: Result<Vec<WorkerEnded>, NotStarted>,
    /// The watching thread, if the run is watched.
    pub watching: Option<RunOver>,
}

// Starts the workers, and watches in a thread more if the run is watched. Returns when all have ended.
fn start_all<R, G, A, C, T>(
    context: &RunContext<R, C, A>,
    gates: &mut Vec<G>,
    watch: &mut T,
) -> CrewEnded
where
    R: Threads + Wait + Sync,
    G: Gate + Send + Drop,
    A: Answers + Beginning + Sync,
    C: Serve + RouteHost<Seat = Seat<NameAttachment<A>>> + Sync,
    T: Watch + Send,
    requires answered { (a : Answer) → T.answered a → A.answered a }
    requires first { context.now.routes ≡ A.first }
    ensures workers { IfOk result.workers (λ ended. HaveEnded (length gates.old.items) ended.items) }
    ensures watching { IfNone result.watching (context.now.channel ≡ None) }
{
    name_thread(ThreadName::Start);
    if context.channel.is_none() {
        return CrewEnded {
            workers: start_workers(context, gates),
            watching: None,
        };
    }
    let (watching, workers) = join_mut(
        context.rt,
        &mut ||
            requires answered { (a : Answer) → T.answered a → A.answered a }
            requires first { context.now.routes ≡ A.first }
        { watch_over(context, watch) },
        &mut || start_workers(context, gates),
    );
    CrewEnded { workers, watching }
}

// Waits until all threads have arrived, polls, and ends the run. `None` if they don't arrive; then nothing was read.
#[tactic(auto, unfolding(crate::specs::inside::Polled::AreReady, crate::specs::inside::Polled::Polled, crate::specs::inside::Polled::AreUntouched))]
fn poll<R: Wait, S: Source, W: Wire, O: Openings + Drop, C: Serve, G: Gate + Drop, A: Answers>(
    context: &RunContext<R, C, A>,
    source: &mut S,
    wire: &mut W,
    polling: &mut PollerState<G, O>,
) -> Option<Pumping>
    requires ready { AreReady context.now.schedules.now (names_of polling.old.names) polling.old.ends.items }
    requires room { IsSome context.now.channel → 511 ≤ vec_capacity polling.old.ends }
    requires few { context.now.rounds ≤ 2 ^ 48 }
    ensures pumped { IfSome result (λ pumping.
        Polled (IsSome context.now.channel) (A.answered AllClose) (A.answered RunEnds) (class_of (secret_bytes context.now.secret.now))
        context.now.schedules.now context.now.rounds pumping.rounds
        (route_reports (O.added polling.old.openings) (O.requested polling.old.openings))
        (route_reports (O.added polling.new.openings) (O.requested polling.new.openings))
        (before (names_of polling.old.names) (heard (S.gave source.old) (S.calls source.old))
        (carried (W.handed wire.old) (W.attempts wire.old)) polling.old.ends.items)
        (after (names_of polling.new.names) (heard (S.gave source.new) (S.calls source.new))
        (carried (W.handed wire.new) (W.attempts wire.new)) polling.new.ends.items pumping.report)) }
    ensures unread { IfNone result (AreUntouched source.old source.new wire.old wire.new) }
    ensures arrived { IfSome result (λ _. IsSome polling.new.arrived) }
    ensures missing { IfNone result (IsSome polling.new.missing) }
    ensures finished { IfSome polling.new.ended (λ e. e.pumping ≡ result) × IsSome polling.new.ended }
{
    let RunContext {
        rt,
        alloc,
        secret,
        schedules,
        cells,
        wakeups,
        channel,
        ..
    } = *context;
    match gather(rt, wakeups) {
        Ok(arrived) => polling.arrived = Some(arrived),
        Err(missing) => {
            polling.missing = Some(missing);
            polling.ended = Some(end_after(wakeups, None));
            return None;
        }
    }
    let inline = InlineServer::new(rt, cells, wakeups, channel, polling.gate.take());
    let task = PollerTask {
        rt,
        alloc,
        secret,
        schedules,
        rounds: context.rounds,
        signals: &inline,
    };
    let names = &mut polling.names;
    let ends = &mut polling.ends;
    let pumping = match channel {
        None => pump_under(&task, names, ends, source, wire),
        Some(_) => {
            let openings = &mut polling.openings;
            pump_changing::<_, DevicesOf<S, W>, _, _>(&task, names, ends, source, wire, openings)
        }
    };
    polling.ended = Some(end_after(wakeups, Some(pumping)));
    Some(pumping)
}

/// How the threads of a run besides the polling one have ended.
#[derive(Drop)]
pub struct ThreadsEnded {
    /// The ticking thread.
    pub ticking: RunOver,
    /// The others.
    pub crew: CrewEnded,
}

// Ticks in a new thread, and starts the workers and the watching thread in another one. Returns when all have ended.
fn tick_and_start<R, D, G, A, C, T>(
    context: &RunContext<R, C, A>,
    clocks: &mut D,
    gates: &mut Vec<G>,
    watch: &mut T,
) -> ThreadsEnded
where
    R: Threads + Wait + Sync,
    D: Clockwork + Send + Drop,
    G: Gate + Send + Drop,
    A: Answers + Beginning + Sync,
    C: Serve + RouteHost<Seat = Seat<NameAttachment<A>>> + Sync,
    T: Watch + Send + Drop,
    requires answered { (a : Answer) → T.answered a → A.answered a }
    requires first { context.now.routes ≡ A.first }
    ensures ticked { D.ticked clocks.old clocks.new }
    ensures workers { IfOk result.crew.workers (λ ended. HaveEnded (length gates.old.items) ended.items) }
    ensures watching { IfNone result.crew.watching (context.now.channel ≡ None) }
{
    let (ticking, crew) = join_mut(
        context.rt,
        &mut || {
            name_thread(ThreadName::Tick);
            clocks.tick(context.rt, context.wakeups)
        },
        &mut ||
            requires answered { (a : Answer) → T.answered a → A.answered a }
            requires first { context.now.routes ≡ A.first }
        { start_all(context, gates, watch) },
    );
    ThreadsEnded { ticking, crew }
}

/// Starts the workers and the ticking thread, watches in one more if the run is watched, and then polls. All threads have
/// ended when it returns. `None` if one could not be started, or wasn't running after ten seconds; then nothing was read.
pub fn serve_routes<R, S: Source, W: Wire, P, O, D, G, A, C, T>(
    context: &RunContext<R, C, A>,
    source: &mut S,
    wire: &mut W,
    polling: &mut PollerState<P, O>,
    others: &mut OtherThreads<D, G, T>,
) -> Option<Pumping>
where
    R: Threads + Wait + Sync,
    P: Gate + Drop,
    O: Openings + Drop,
    D: Clockwork + Send + Drop,
    G: Gate + Send + Drop,
    A: Answers + Beginning + Sync,
    C: Serve + RouteHost<Seat = Seat<NameAttachment<A>>> + Sync,
    T: Watch + Send + Drop,
    requires answered { (a : Answer) → T.answered a → A.answered a }
    requires first { context.now.routes ≡ A.first }
    requires ready { AreReady context.now.schedules.now (names_of polling.old.names) polling.old.ends.items }
    requires room { IsSome context.now.channel → 511 ≤ vec_capacity polling.old.ends }
    requires few { context.now.rounds ≤ 2 ^ 48 }
    ensures pumped { IfSome result (λ pumping.
        Polled (IsSome context.now.channel) (A.answered AllClose) (A.answered RunEnds) (class_of (secret_bytes context.now.secret.now))
        context.now.schedules.now context.now.rounds pumping.rounds
        (route_reports (O.added polling.old.openings) (O.requested polling.old.openings))
        (route_reports (O.added polling.new.openings) (O.requested polling.new.openings))
        (before (names_of polling.old.names) (heard (S.gave source.old) (S.calls source.old))
        (carried (W.handed wire.old) (W.attempts wire.old)) polling.old.ends.items)
        (after (names_of polling.new.names) (heard (S.gave source.new) (S.calls source.new))
        (carried (W.handed wire.new) (W.attempts wire.new)) polling.new.ends.items pumping.report)) }
    ensures ticked { D.ticked others.old.clocks others.new.clocks }
    ensures ended { IfSome others.new.ended (λ e. IfOk e.crew.workers (λ ended. HaveEnded (length others.old.gates.items) ended.items)
        × IfNone e.crew.watching (context.now.channel ≡ None)) × IsSome others.new.ended }
    ensures unread { IfNone result (AreUntouched source.old source.new wire.old wire.new) }
    ensures arrived { IfSome result (λ _. IsSome polling.new.arrived) }
    ensures missing { IfNone result (IsSome polling.new.missing) }
    ensures finished { IfSome polling.new.ended (λ e. e.pumping ≡ result) × IsSome polling.new.ended }
{
    let clocks = &mut others.clocks;
    let gates = &mut others.gates;
    let watch = &mut others.watch;
    // The polling thread's gate has a separate type, `P`: what both closures capture may share no type parameter.
    let (ended, pumping) = join_mut(
        context.rt,
        &mut ||
            requires answered { (a : Answer) → T.answered a → A.answered a }
            requires first { context.now.routes ≡ A.first }
        { tick_and_start(context, clocks, gates, watch) },
        &mut ||
            requires ready { AreReady context.now.schedules.now (names_of polling.now.names) polling.now.ends.items }
            requires room { IsSome context.now.channel → 511 ≤ vec_capacity polling.now.ends }
            requires few { context.now.rounds ≤ 2 ^ 48 }
        { poll(context, source, wire, polling) },
    );
    others.ended = Some(ended);
    pumping
}
