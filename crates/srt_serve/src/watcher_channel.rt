//! The channel between the polling thread and the watching one, in a run that is watched: the watcher's order to the
//! poller, and the faults, the refusals and, when the watcher wants them, the counts of the polling thread.
//!
//! Apart from the refusals these are atomics and no queue: only the latest value counts, so the polling thread never waits
//! and never finds the channel full, and a load before each round is all that a round costs. A struct that owns two queues
//! of different item types is also refused by the prover (docs/proving-traps.md, "Queues and threads"), so the counts are
//! in atomics with a flag (`SharedReport`). Nothing here is touched for a packet of an open session.

ghost use Rattle.std.specs.Prelude.{◌≡◌, IfOk};
ghost use Rattle.crossbeam_queue.specs.Passes.{queue_capacity};
ghost use Rattle.srt_supervision.specs.Answers.{IsOrdered};

use crate::answers::{ClosesAll, EndsRun};
use crate::counters::{Count, Counted, Counter, MissedRefusals, SocketFaults};
use crate::evidence::{NoPlace, OrderRead, WasPut, WordWritten, read_order, write_word};
use crate::refusal_queue::RefusalQueue;
use crate::shared_report::{ReportLeft, SharedReport};
use srt_supervision::{Answers, Order, Refusal, Report};
use srt_wakeups::{RouteMarks, Wakeups};
use std::alloc::{AllocError, Global};
use std::sync::Wait;
use std::sync::atomic::AtomicIn;

// The most refusals that wait for the watcher, which takes them many times a second.
const REFUSAL_PLACES: usize = 64;

/// Evidence that an order was set: a word that was written.
#[derive(Drop)]
pub enum OrderSet<A: Answers> {
    /// The word of the orders to close all.
    Closes(WordWritten<AtomicIn<ClosesAll<A>>>),
    /// The word of the orders to end.
    Ends(WordWritten<AtomicIn<EndsRun<A>>>),
}

/// What became of a refusal.
#[derive(Drop)]
pub enum Left {
    /// It waits for the watcher.
    Waits(WasPut<Refusal>),
    /// There was no place, and it was counted as missed.
    Missed(Missed),
}

/// Evidence that a refusal was counted as missed, since there was no place for it.
#[derive(Drop)]
pub struct Missed {
    none: NoPlace,
    counted: Counted<MissedRefusals>,
}

/// What the polling thread hands to a watcher, and asks it. All calls are of the polling thread. What is known once one has
/// returned is for the channel to choose; it may be nothing, but only by the call can a caller show it.
pub trait PollerChannel: Answers {
    ghost use Rattle.std.specs.Prelude.{◌≡◌, IfSome};
    ghost use Rattle.srt_supervision.specs.declared.order.Order.{Order as TheOrder};
    ghost use Rattle.srt_supervision.specs.declared.report.Report.{Report as TheReport};
    ghost use Rattle.srt_supervision.specs.declared.refusal.Refusal.{Refusal as TheRefusal};
    ghost use Rattle.srt_supervision.specs.Answers.{IsOrdered};
    ghost use Rattle.srt_serve.specs.inside.Leaving.{IsLeft};

    /// The marks of the routes of its run.
    type Marks: RouteMarks;

    /// What is known of the order that it returned.
    ghost ordered: { Self → TheOrder → Type 0 };

    /// What is known of counts that were reported.
    ghost counted: { Self → TheReport → Type 0 };

    /// What is known once there was no place for a refusal.
    ghost missed: { Self → Type 0 };

    /// What is known of a refusal that was left.
    ghost told: { Self → TheRefusal → Type 0 };

    /// What is known once a fault was counted.
    ghost faulted: { Self → Type 0 };

    /// Returns the order. It is to close all, or to end, only if the watcher gave that order.
    fn order(&self) -> OrderRead
        ensures known { IsOrdered Self.answered result.order }
        ensures ordered { ordered self.now result.order };

    /// Reports the poller's counts.
    fn report(&self, report: &Report) -> ReportLeft
        ensures left { IsLeft report.now result }
        ensures counted { counted self.now report.now };

    /// Evidence that a refusal would find no place, if it wouldn't. Counts it as missed then.
    fn misses(&self) -> Option<Missed>
        ensures { IfSome result (λ _. missed self.now) };

    /// Leaves a refusal for the watcher, or counts it as missed.
    fn leave<R: Wait>(&self, rt: &R, refusal: Refusal) -> Left
        ensures { told self.now refusal };

    /// Counts a fault of the socket.
    fn failed(&self) -> Counted<SocketFaults>
        ensures { faulted self.now };
}

/// Between the polling thread and the watching one.
#[derive(Drop)]
pub struct WatcherChannel<A: Answers> {
    // 1 if the order is to close all
    closes: AtomicIn<ClosesAll<A>>,
    // 1 if the order is to end
    ends: AtomicIn<EndsRun<A>>,
    // the number of socket faults
    faults: Counter<SocketFaults>,
    /// The refusals that wait for the watcher.
    pub refusals: RefusalQueue,
    // the number of refusals for which there was no place, of all codes together
    missed: Counter<MissedRefusals>,
    /// The counts of the poller.
    pub report: SharedReport,
}

impl<A: Answers> WatcherChannel<A> {
    ghost use Rattle.srt_serve.specs.inside.Orders.{IsSet};

    /// The order is to go on, nothing was reported, and the first counts are wanted. Allocates room for 64 refusals; an
    /// error means out of memory.
    pub fn open(alloc: Global) -> Result<WatcherChannel<A>, AllocError>
        ensures { IfOk result (λ channel. queue_capacity channel.refusals.queue ≡ 64) }
    {
        Ok(WatcherChannel {
            closes: AtomicIn::new(0),
            ends: AtomicIn::new(0),
            faults: Counter::new(),
            refusals: RefusalQueue::open(alloc, REFUSAL_PLACES)?,
            missed: Counter::new(),
            report: SharedReport::new(),
        })
    }

    /// Sets the order, which the watcher gave. An order to end is final.
    pub fn set_order(&self, order: Order) -> OrderSet<A>
        requires { IsOrdered A.answered order }
        ensures { IsSet order result }
    {
        match order {
            Order::GoOn => OrderSet::Closes(write_word(&self.closes, 0)),
            Order::CloseAll => OrderSet::Closes(write_word(&self.closes, 1)),
            Order::End => OrderSet::Ends(write_word(&self.ends, 1)),
        }
    }

    /// The number of faults so far.
    pub fn faults(&self) -> Count<SocketFaults> {
        self.faults.read()
    }

    /// The number of refusals so far for which there was no place.
    pub fn missed(&self) -> Count<MissedRefusals> {
        self.missed.read()
    }

    // Counts a refusal for which there was no place.
    fn miss(&self, none: NoPlace) -> Missed {
        Missed {
            none,
            counted: self.missed.add(),
        }
    }
}

impl<A: Answers> Answers for WatcherChannel<A> {
    ghost answered = { λ a. A.answered a };
}

impl<A: Answers> PollerChannel for WatcherChannel<A> {
    type Marks = Wakeups;

    ghost ordered = { λ _ _. Unit {0} };

    ghost counted = { λ _ _. Unit {0} };

    ghost missed = { λ _. Unit {0} };

    ghost told = { λ _ _. Unit {0} };

    ghost faulted = { λ _. Unit {0} };

    fn order(&self) -> OrderRead {
        read_order::<A, _, _>(&self.ends, &self.closes)
    }

    fn report(&self, report: &Report) -> ReportLeft {
        self.report.leave(report)
    }

    fn misses(&self) -> Option<Missed> {
        match self.refusals.look_for_place() {
            Ok(()) => None,
            Err(none) => Some(self.miss(none)),
        }
    }

    fn leave<R: Wait>(&self, rt: &R, refusal: Refusal) -> Left {
        match self.refusals.put(rt, refusal) {
            Ok(put) => Left::Waits(put),
            Err(none) => Left::Missed(self.miss(none)),
        }
    }

    fn failed(&self) -> Counted<SocketFaults> {
        self.faults.add()
    }
}
