//! The course of a run on its machine: by what it stops, and the order of the poller that follows.

ghost use Rattle.std.specs.Prelude.{◌≡◌, true, None};
ghost use Rattle.std.specs.Option.{ForSome};
ghost use Rattle.srt_supervision.specs.Answers.{IsOrdered};
ghost use Rattle.srt_watch.specs.Answers.{IsSteered, IsAnswer};
ghost use Rattle.srt_watch.specs.Course.{first_course, begun, is_due, after_due, is_stopping, stop_of, after_stop};
ghost use Rattle.srt_watch.specs.Facts.{any_file};
ghost use Rattle.srt_watch.specs.Stopping.{stop_step, order_of};

use crate::course::Course;
use crate::machine::Machine;
use crate::stopping::StopStep;
use srt_log::StopCause;
use srt_supervision::Order;
use std::marker::PhantomData;

/// The course of a run on a machine.
#[derive(Drop)]
pub(crate) struct Steering<M: Machine> {
    // how long the run lasts once it has begun, if it stops by itself
    lasts: Option<u64>,
    course: Course,
    of: PhantomData<M>,
    ghost known: { ∥ IsSteered M.facts lasts course ∥₁ },
}

impl<M: Machine> Steering<M> {
    /// Returns the course of a run that lasts so long, in microseconds, if it stops by itself. It hasn't begun.
    pub(crate) fn new(lasts: Option<u64>) -> Steering<M>
        requires { ForSome lasts M.facts.was_lasting }
        ensures lasts { result.lasts ≡ lasts }
        ensures course { result.course ≡ first_course }
    {
        Steering {
            lasts,
            course: Course::new(),
            of: PhantomData,
        }
    }

    /// Begins the run at this moment, unless it has begun.
    pub(crate) fn begin(&mut self, moment: u64)
        requires { M.facts.was_moment moment }
        ensures course { self.new.course ≡ begun self.old.course moment self.old.lasts }
        ensures lasts { self.new.lasts ≡ None }
    {
        if let Some(lasts) = self.lasts.take() {
            self.course.end_after(moment, lasts);
        }
    }

    /// Whether snapshots of the routes are due.
    pub(crate) fn is_snapshot_due(&mut self, moment: u64) -> bool
        ensures result { result ≡ is_due self.old.course moment }
        ensures new { self.new.course ≡ after_due self.old.course moment }
        ensures lasts { self.new.lasts ≡ self.old.lasts }
    {
        self.course.is_snapshot_due(moment)
    }

    /// Whether a stop was requested.
    pub(crate) fn is_stopping(&self) -> bool
        ensures { result ≡ is_stopping self.now.course }
    {
        self.course.is_stopping()
    }

    /// Notes that the gateway is to stop, and returns why. None if it isn't to stop, or if that was noted before.
    /// `requested`: a signal to stop has arrived.
    pub(crate) fn stop(&mut self, requested: bool, moment: u64) -> Option<StopCause>
        requires signal { requested ≡ true → M.facts.was_signalled }
        requires moment { M.facts.was_moment moment }
        ensures result { result ≡ stop_of self.old.course requested moment }
        ensures new { self.new.course ≡ after_stop self.old.course requested moment }
        ensures lasts { self.new.lasts ≡ self.old.lasts }
    {
        self.course.stop(requested, moment)
    }

    /// Returns the order of the poller. `is_quiet`: no session is open, and nothing is left to send.
    pub(crate) fn order(&self, moment: u64, is_quiet: bool) -> Order
        requires { M.facts.was_moment moment }
        ensures order { result ≡ order_of (stop_step self.now.course.requested_at moment is_quiet) }
        ensures known { IsOrdered (IsAnswer M.facts any_file) result }
    {
        match self.course.step(moment, is_quiet) {
            StopStep::GoOn => Order::GoOn,
            StopStep::Close => Order::CloseAll,
            StopStep::End => Order::End,
        }
    }
}
