//! Which outboxes a round has drained.

ghost use Rattle.std.specs.Prelude.{◌≡◌, ℕ, ◌<◌, ◌≤◌, ◌+◌, ◌||◌, true, false, None, length, slice_index_or};
ghost use Rattle.srt_poller.specs.declared.ends.Ends.{Ends as TheEnds};
ghost use Rattle.srt_poller.specs.Devices.{carried};
ghost use Rattle.srt_poller.specs.Pollers.{sending, Replies};
ghost use Rattle.srt_poller.specs.inside.Visits.{IsLeft, IsKeptAfter, is_open};

use crate::context::RoundContext;
use crate::devices::Wire;
use crate::ends::Ends;
use crate::poller::{Left, Poller};
use crate::signals::{Hints, Signals};
use std::sync::Wait;

/// The routes whose outboxes a round has drained, or passed over by their hints: all before the next one. Only the functions
/// of this file change it.
#[derive(Drop)]
pub(crate) struct Visits {
    next: usize,
    // the round checks all outboxes, whatever their hints are
    all: bool,
    // the drain of an outbox stopped before it had found it empty
    left: bool,
}

impl Visits {
    /// None yet, in a round that checks all outboxes, or in one that doesn't.
    #[inline(always)]
    pub(crate) fn new(all: bool) -> Visits
        ensures next { result.next ≡ 0 }
        ensures all { result.all ≡ all }
        ensures left { result.left ≡ false }
    {
        Visits {
            next: 0,
            all,
            left: false,
        }
    }

    /// Whether the drain of an outbox stopped before it had found it empty.
    #[inline(always)]
    pub(crate) fn is_left(&self) -> bool
        ensures { result ≡ self.now.left }
    {
        self.left
    }

    /// Passes over routes whose outboxes have no reply by their hints, unless the round checks all. Returns the next route.
    #[inline(always)]
    pub(crate) fn pass<R, G: Hints>(&mut self, context: &RoundContext<R, G>) -> usize
        ensures next { self.new.next ≡ result }
        ensures later { self.old.next ≤ result }
        ensures all { self.old.all ≡ true → result ≡ self.old.next }
        ensures rest { (r : ℕ) → self.old.next ≤ r → r < result → (self.old.all ≡ false) × G.rests context.now.signals.now r }
        ensures same { (self.new.all ≡ self.old.all) × (self.new.left ≡ self.old.left) }
    {
        if self.all {
            return self.next;
        }
        let next = context.look_ahead().next_hinted(self.next);
        self.next = next;
        next
    }

    /// Drains the outbox of the next route (`Poller::drain_route`).
    #[inline(always)]
    pub(crate) fn drain_next<R: Wait, W: Wire, G: Signals>(
        &mut self,
        poller: &mut Poller,
        context: &RoundContext<R, G>,
        wire: &mut W,
        ends: &mut [Ends],
    ) -> Left
        requires route { self.old.next < length ends.old }
        requires kept { poller.old.kept ≡ None }
        ensures next { self.new.next ≡ self.old.next + 1 }
        ensures went { Replies (G.knows context.now.signals.now) self.old.next 0 self.old.next 64 64
            (sending (carried (W.handed wire.old) (W.attempts wire.old)) ends.old poller.old)
            (sending (carried (W.handed wire.new) (W.attempts wire.new)) ends.new poller.new) }
        ensures kept { IsKeptAfter result poller.new.kept }
        ensures left { (e : TheEnds) → IsLeft self.old.all (G.rests context.now.signals.now self.old.next) result
            (slice_index_or ends.old self.old.next e).drain (slice_index_or ends.new self.old.next e).drain }
        ensures same { self.new.all ≡ self.old.all }
        ensures open { self.new.left ≡ (self.old.left || is_open result) }
        ensures read { poller.new.report.read ≡ poller.old.report.read }
    {
        let route = self.next;
        self.next = route + 1;
        let left = poller.drain_route(context, wire, ends, route, self.all);
        self.left |= left.is_open();
        left
    }
}
