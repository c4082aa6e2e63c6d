//! The turns of a run's threads. A thread that finds that its run isn't over gets a `Turn`, and only the functions of this
//! file take one: so it has to make it before it looks again.

ghost use Rattle.std.specs.Prelude.{◌≡◌, ◌≢◌, true, IfNone, length};
ghost use Rattle.srt_serve.specs.inside.Looking.{IsShownAt, IsCheckOf, AreReported};
ghost use Rattle.srt_serve.specs.inside.Pausing.{Paused};
ghost use Rattle.srt_serve.specs.inside.Taken.{taken_in};
ghost use Rattle.srt_serve.specs.inside.TickTurn.{TickedOnce};
ghost use Rattle.srt_serve.specs.inside.UpTo.{UpTo};
ghost use Rattle.srt_serve.specs.inside.Watched.{known_with, known_checked, status_of};
ghost use Rattle.srt_supervision.specs.Answers.{Answer};
ghost use Rattle.srt_supervision.specs.declared.order.Order.TheVariants.{GoOn};

use crate::answers::Beginning;
use crate::arrivals::{NameAttachment, RouteNotices};
use crate::evidence::{NothingWaits, RouteHost, TicksTold};
use crate::known::Known;
use crate::ticking::{Clocks, TickEnd, TickEnds, Ticker, tick_with_new};
use crate::watcher_channel::WatcherChannel;
use crate::watching::{Changer, Check, Rested, change_routes, check_routes, report_refusals, rest};
use crate::working::{WorkerRoutes, pause_after, serve_round};
use srt_mailbox::{Gate, Seat, Serve};
use srt_supervision::{Answers, Watch};
use srt_wakeups::{RouteMarks, Wakeups, WorkerPauses};
use std::sync::Wait;

/// A turn that a thread has to make. It has no `Drop`.
pub struct Turn {
    due: (),
}

impl Turn {
    /// A turn is due.
    pub fn due() -> Turn {
        Turn { due: () }
    }
}

/// A turn of the ticking thread: takes the ends that were added, offers all ends a tick at the next time of the ticker, and
/// tells the workers.
pub fn make_tick<R: Wait, K: Ticker + Drop, E: TickEnd + Drop, A: TickEnds<E> + Drop>(
    rt: &R,
    clocks: &mut Clocks<K, E, A>,
    wakeups: &Wakeups,
    turn: Turn,
) -> TicksTold
    ensures ticked { TickedOnce E.inbox E.tried (K.gave clocks.old.ticker) (K.gave clocks.new.ticker) (A.added clocks.old.arrivals)
        (A.added clocks.new.arrivals) clocks.old.ends.items clocks.new.ends.items }
    ensures same { A.places clocks.new.arrivals ≡ A.places clocks.old.arrivals }
    ensures told { result.routes ≡ length clocks.new.ends.items }
{
    let Turn { due: () } = turn;
    let moment = clocks.ticker.next();
    let offered = tick_with_new(rt, &mut clocks.ends, &mut clocks.arrivals, moment);
    offered.tell(wakeups)
}

/// A turn of a worker that had slept before it, or not: passes over all routes, and pauses. Whether it slept.
pub fn make_round<R: Wait, C: Serve, G: Gate, M: RouteMarks + WorkerPauses>(
    routes: &WorkerRoutes<'_, R, C, M>,
    first: usize,
    gate: &mut G,
    napped: bool,
    turn: Turn,
) -> bool
    ensures passed { UpTo (M.passed routes.now.marks.now) (length routes.now.cells.now) }
    ensures paused { Paused M.saw M.napped M.rested M.dozed M.shared routes.now.marks.now napped result }
{
    let Turn { due: () } = turn;
    let seen = routes.marks.seen();
    let round = serve_round(routes, first, gate);
    pause_after(routes, round, napped, seen)
}

/// What the watching thread uses in each of its turns.
#[derive(Drop)]
pub struct WatchedRun<'a, R, A: Answers> {
    /// The host.
    pub rt: &'a R,
    /// Whether outboxes may have replies.
    pub wakeups: &'a Wakeups,
    /// Between the polling thread and the watching one.
    pub channel: &'a WatcherChannel<A>,
}

/// A turn of the watching thread, once it was made.
#[derive(Drop)]
pub struct WatchTurn<A: Answers> {
    /// The watcher's rest.
    pub rested: Rested<A>,
    // evidence that no refusal waited any more; none if many did
    reported: Option<NothingWaits>,
    // the watcher wanted the routes
    looks: bool,
    /// The check of the routes.
    pub check: Check,
}

/// A turn of the watching thread: lets the watcher rest once, and then executes its order and its changes.
pub fn watch_once<R: Wait, A: Answers + Beginning, C, T: Watch>(
    run: &WatchedRun<'_, R, A>,
    changer: &mut Changer<'_, C, RouteNotices<A>, A>,
    watch: &mut T,
    known: &mut Known,
    turn: Turn,
) -> WatchTurn<A>
where
    C: Serve + RouteHost<Seat = Seat<NameAttachment<A>>>,
    requires { (a : Answer) → T.answered a → A.answered a }
    ensures rested { T.rested (status_of (known_with result.rested.left known.old) result.rested.faults.number result.rested.missed.number)
        result.rested.order }
    ensures reported { IfNone result.reported (AreReported T.told 1024) }
    ensures wanted { T.wanted result.looks }
    ensures changed { result.rested.order ≡ GoOn → T.changed }
    ensures kept { result.rested.order ≢ GoOn → changer.new ≡ changer.old }
    ensures shown { result.looks ≡ true → UpTo (IsShownAt C.holds C.shows_none T.shown true (taken_in changer.new)) (length (taken_in changer.new)) }
    ensures check { IsCheckOf C.holds C.shows_none result.rested.order (taken_in changer.new) result.check }
    ensures known { known.new ≡ known_checked result.check.is_quiet (known_with result.rested.left known.old) }
{
    let Turn { due: () } = turn;
    let WatchedRun {
        rt,
        wakeups,
        channel,
    } = *run;
    let rested = rest(channel, watch, known);
    let reported = report_refusals(rt, channel, watch);
    let looks = watch.wants_routes();
    change_routes(changer, watch, rested.order);
    let check = check_routes(rt, changer.taken(), wakeups, rested.order, watch, looks);
    known.check(check.is_quiet);
    WatchTurn {
        rested,
        reported,
        looks,
        check,
    }
}

#[cfg(test)]
pub mod tests;
