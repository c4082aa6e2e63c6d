//! A worker thread: round after round it serves the routes that may have work.

ghost use Rattle.std.specs.Prelude.{◌≡◌, ◌≢◌, ◌<◌, ◌≤◌, true, false, Some, None, length};
ghost use Rattle.srt_mailbox.specs.Counts.{Grew};
ghost use Rattle.srt_mailbox.specs.declared.gates.Served.TheVariants.{Turned as TurnedAs, GateRefused, ClaimedElsewhere};
ghost use Rattle.srt_types.specs.declared.shared.Turned.TheVariants.{Idle};
ghost use Rattle.srt_serve.specs.inside.Working.{round_first, round_with, is_thin, pause_after, sleeps, first_of, ArePassed};
ghost use Rattle.srt_serve.specs.inside.Pausing.{IsPause};
ghost use Rattle.srt_serve.specs.inside.UpTo.{UpTo};

use crate::evidence::{Entered, LeftRoute, RunOver, come, enter, run_over};
use crate::turns::make_round;
use srt_mailbox::{Gate, Serve, Served, Visit};
use srt_types::Turned;
use srt_wakeups::pacing::{MANY_REPLIES, THIN_ROUTES, THIN_TURNS, WORKER_TURNS};
use srt_wakeups::{RouteMarks, Wakeups, WorkerPauses};
use std::sync::Wait;

/// What a worker did in a round.
#[derive(Clone, Copy)]
pub struct Round {
    // the number of routes at which a turn applied an item or moved a reply
    served: u32,
    // the most such turns at one route
    most: u32,
    // the number of replies that were moved
    moved: u32,
}

// What a worker does after a round.
#[derive(Clone, Copy)]
enum Pause {
    // it dozes, since there was a little to do at each of many routes
    Doze,
    // it begins the next round, after it has woken a worker in reserve
    Share,
    // it begins the next round
    GoOn,
    // it rests, since it found nothing to do again
    Rest,
    // it naps, since it found nothing to do
    Nap,
}

impl Round {
    // Nothing was done.
    const fn new() -> Round
        ensures { result ≡ round_first }
    {
        Round {
            served: 0,
            most: 0,
            moved: 0,
        }
    }

    // The same after one visit more.
    fn with(self, visit: Visit) -> Round
        ensures { result ≡ round_with visit self }
    {
        let served = if visit.turns > 0 {
            self.served.saturating_add(1)
        } else {
            self.served
        };
        Round {
            served,
            most: self.most.max(visit.turns),
            moved: self.moved.saturating_add(visit.moved),
        }
    }

    // Whether there was a little to do at each of many routes.
    fn is_thin(self) -> bool
        ensures { result ≡ is_thin self }
    {
        self.served >= THIN_ROUTES && self.most <= THIN_TURNS
    }

    // What follows the round, before which the worker had napped, rested or dozed, or not.
    fn pause(self, napped: bool) -> Pause
        ensures { result ≡ pause_after self napped }
    {
        if self.is_thin() {
            Pause::Doze
        } else if self.served > 0 {
            if self.moved >= MANY_REPLIES {
                Pause::Share
            } else {
                Pause::GoOn
            }
        } else if napped {
            Pause::Rest
        } else {
            Pause::Nap
        }
    }
}

// Whether the worker has slept once it did this.
fn sleeps(pause: Pause) -> bool
    ensures { result ≡ sleeps pause }
{
    !matches!(pause, Pause::Share | Pause::GoOn)
}

// The route at which the worker with this number begins each of its rounds, of this many routes.
fn first_of(worker: usize, routes: usize) -> usize
    ensures { result ≡ first_of worker routes }
{
    if routes == 0 { 0 } else { worker % routes }
}

/// Serves a route until it is idle, blocked by a full outbox, held by the gate or claimed by another call, and for at
/// most `most` turns.
pub fn serve_route<R: Wait, C: Serve, G: Gate, M: RouteMarks>(
    rt: &R,
    cell: &C,
    route: usize,
    gate: &mut G,
    marks: &M,
    most: u32,
) -> Visit
    ensures most { result.turns ≤ most }
    ensures moved { result.moved ≤ result.turns }
    ensures replied { 0 < result.moved → M.replied marks.now route }
    ensures all { result.end ≡ None → result.turns ≡ most }
    ensures held { result.end ≡ Some GateRefused → Grew (G.held gate.old) (G.held gate.new) }
    ensures passed { result.end ≢ Some GateRefused → G.held gate.new ≡ G.held gate.old }
    ensures busy { result.end ≡ Some ClaimedElsewhere → (result.turns ≡ 0) × (gate.new ≡ gate.old) }
{
    let visit = cell.visit(rt, gate, most);
    if visit.moved > 0 {
        marks.mark_outbox(route);
    }
    visit
}

/// Whether more may be left to do after a visit, so that the route's inbox is to be marked as ready again.
pub fn is_left(visit: Visit) -> bool
    ensures idle { visit.end ≡ Some (TurnedAs Idle) → result ≡ false }
    ensures held { visit.end ≡ Some GateRefused → result ≡ false }
    ensures left { visit.end ≢ Some (TurnedAs Idle) → visit.end ≢ Some GateRefused → result ≡ true }
{
    match visit.end {
        Some(Served::Turned(Turned::Idle)) | Some(Served::GateRefused) => false,
        _ => true,
    }
}

/// A visit of a route that a thread took upon itself, and left after it.
#[derive(Drop)]
pub struct Stay {
    /// The visit.
    pub visit: Visit,
    /// Whether it left work there.
    pub left: LeftRoute,
}

// Serves a route that this worker entered, and leaves it.
fn serve_entered<R: Wait, C: Serve, G: Gate, M: RouteMarks>(
    rt: &R,
    entered: Entered<'_, C, M>,
    gate: &mut G,
) -> Stay
    ensures most { result.visit.turns ≤ 64 }
    ensures all { result.visit.end ≡ None → result.visit.turns ≡ 64 }
    ensures idle { result.visit.end ≡ Some (TurnedAs Idle) → result.left.is_left ≡ false }
    ensures held { result.visit.end ≡ Some GateRefused → result.left.is_left ≡ false }
    ensures left { result.visit.end ≢ Some (TurnedAs Idle) → result.visit.end ≢ Some GateRefused → result.left.is_left ≡ true }
    ensures replied { 0 < result.visit.moved → M.replied entered.entry.marks.now entered.entry.route }
    ensures marked { result.left.is_left ≡ true → M.left entered.entry.marks.now entered.entry.route }
    ensures passed { M.passed entered.entry.marks.now entered.entry.route }
{
    let visit = serve_route(
        rt,
        entered.cell,
        entered.route,
        gate,
        entered.marks,
        WORKER_TURNS,
    );
    Stay {
        visit,
        left: entered.leave(is_left(visit)),
    }
}

/// The routes that a worker serves.
#[derive(Drop)]
pub struct WorkerRoutes<'a, R, C, M> {
    /// The host.
    pub rt: &'a R,
    /// Their cells.
    pub cells: &'a [C],
    /// Their marks.
    pub marks: &'a M,
}

// A worker's pass over the routes.
#[derive(Drop)]
struct Pass {
    // what it did so far
    round: Round,
    // it has woken another worker
    is_shared: bool,
}

// Wakes another worker, once in a pass, if there is much to do.
fn share<M: RouteMarks>(marks: &M, pass: &mut Pass)
    ensures { pass.new.round ≡ pass.old.round }
{
    if pass.round.moved >= MANY_REPLIES && !pass.is_shared {
        pass.is_shared = true;
        marks.wake_one();
    }
}

// Serves the route with this index, if no other worker serves it.
fn serve_one<R: Wait, C: Serve, G: Gate, M: RouteMarks>(
    routes: &WorkerRoutes<'_, R, C, M>,
    route: usize,
    gate: &mut G,
    pass: &mut Pass,
)
    ensures { route < length routes.now.cells.now → M.passed routes.now.marks.now route }
{
    if let Some(entered) = enter(routes.marks, routes.cells, route) {
        pass.round = pass
            .round
            .with(serve_entered(routes.rt, entered, gate).visit);
    }
}

// Serves each route whose inbox is ready and that no other worker serves, from one route on and before another one. If
// there is much to do, it wakes another worker.
fn serve_between<R: Wait, C: Serve, G: Gate, M: RouteMarks>(
    routes: &WorkerRoutes<'_, R, C, M>,
    from: usize,
    to: usize,
    gate: &mut G,
    pass: &mut Pass,
)
    ensures { ArePassed (M.passed routes.now.marks.now) (length routes.now.cells.now) from to }
{
    let mut route = from;
    for _ in from..to {
        route = routes.marks.next_ready(route).max(route);
        if route >= to {
            return;
        }
        share(routes.marks, pass);
        serve_one(routes, route, gate, pass);
        route = route.wrapping_add(1);
    }
}

/// Passes once over all routes, from the route `first` on, and serves each whose inbox is ready and that no other worker
/// serves.
pub fn serve_round<R: Wait, C: Serve, G: Gate, M: RouteMarks>(
    routes: &WorkerRoutes<'_, R, C, M>,
    first: usize,
    gate: &mut G,
) -> Round
    ensures { UpTo (M.passed routes.now.marks.now) (length routes.now.cells.now) }
{
    let mut pass = Pass {
        round: Round::new(),
        is_shared: false,
    };
    serve_between(routes, first, routes.cells.len(), gate, &mut pass);
    serve_between(routes, 0, first, gate, &mut pass);
    pass.round
}

/// Pauses after a round, which the worker began once there had been `seen` notifications, and before which it had slept or
/// not. Whether it slept.
pub fn pause_after<R: Wait, C, M: WorkerPauses>(
    routes: &WorkerRoutes<'_, R, C, M>,
    round: Round,
    napped: bool,
    seen: u64,
) -> bool
    ensures paused { IsPause M.saw M.napped M.rested M.dozed M.shared routes.now.marks.now (pause_after round napped) seen round.served }
    ensures slept { result ≡ sleeps (pause_after round napped) }
{
    let WorkerRoutes { rt, marks, .. } = *routes;
    let pause = round.pause(napped);
    match pause {
        Pause::Doze => marks.take_doze(rt, seen, round.served),
        Pause::Share => marks.share_work(),
        Pause::GoOn => {}
        Pause::Rest => marks.take_rest(rt, seen),
        Pause::Nap => marks.take_nap(rt, seen),
    }
    sleeps(pause)
}

/// Evidence that a worker has ended, since the run was over.
#[derive(Drop)]
pub struct WorkerEnded {
    /// Its number.
    pub number: usize,
    over: RunOver,
}

/// Serves the routes whose inboxes are ready, round after round from the route on at which the worker with this number
/// begins, until the run has ended. After a round that found nothing to do it sleeps for a short time (`nap`), and after
/// each further one for longer (`rest`). After a thin round, which found a little to do at each of many routes, it sleeps by
/// their number (`doze`), so that more arrives there: a batch costs nearly the same for one item as for several. Only one
/// worker sleeps so at a time; a second one is parked, until a round that has much to do wakes it (`Wakeups::wake_reserve`).
pub fn work<R: Wait, C: Serve, G: Gate + Drop>(
    rt: &R,
    cells: &[C],
    mut gate: G,
    number: usize,
    wakeups: &Wakeups,
) -> WorkerEnded
    ensures { result.number ≡ number }
{
    let came = come(wakeups);
    let first = first_of(number, cells.len());
    let routes = WorkerRoutes {
        rt,
        cells,
        marks: wakeups,
    };
    let mut napped = false;
    for _ in rt.forever() {
        match run_over(wakeups, &came) {
            Ok(over) => return WorkerEnded { number, over },
            Err(turn) => napped = make_round(&routes, first, &mut gate, napped, turn),
        }
    }
    unreachable!()
}
