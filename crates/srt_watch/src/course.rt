//! The course of a run: when snapshots of its routes are taken, and when it stops.

ghost use Rattle.std.specs.Prelude.{◌≡◌};
ghost use Rattle.srt_watch.specs.Stopping.{stop_step};
ghost use Rattle.srt_watch.specs.Course.{first_course, ending, is_due, after_due, is_stopping, is_over, cause_of, stop_of, after_stop};

use crate::stopping::{StopStep, stop_step};
use srt_log::StopCause;

/// The time between two snapshots of the routes, in microseconds.
const SNAPSHOT_INTERVAL: u64 = 500_000;

/// When a watcher takes snapshots of the routes, and when the gateway stops. Times are in microseconds of the routes' clock.
#[derive(Clone, Copy)]
pub(crate) struct Course {
    // the time of the next snapshots
    next_snapshot: u64,
    // the time at which the gateway stops by itself
    ends_at: Option<u64>,
    // the time at which a stop was requested
    requested_at: Option<u64>,
}

impl Course {
    /// Returns the course of a run whose first snapshots are due, and which isn't to end.
    pub(crate) fn new() -> Course
        ensures { result ≡ first_course }
    {
        Course {
            next_snapshot: 0,
            ends_at: None,
            requested_at: None,
        }
    }

    /// Ends the run this many microseconds after `moment`.
    pub(crate) fn end_after(&mut self, moment: u64, lasts: u64)
        ensures { self.new ≡ ending self.old moment lasts }
    {
        self.ends_at = Some(moment.saturating_add(lasts));
    }

    /// Whether snapshots of the routes are due: twice a second.
    pub(crate) fn is_snapshot_due(&mut self, moment: u64) -> bool
        ensures result { result ≡ is_due self.old moment }
        ensures new { self.new ≡ after_due self.old moment }
    {
        if moment < self.next_snapshot {
            return false;
        }
        self.next_snapshot = moment.saturating_add(SNAPSHOT_INTERVAL);
        true
    }

    /// Whether a stop was requested.
    pub(crate) fn is_stopping(&self) -> bool
        ensures { result ≡ is_stopping self.now }
    {
        self.requested_at.is_some()
    }

    // Whether the time of the run is over.
    fn is_over(&self, moment: u64) -> bool
        ensures { result ≡ is_over self.now.ends_at moment }
    {
        match self.ends_at {
            Some(ends_at) => ends_at <= moment,
            None => false,
        }
    }

    // Returns why the gateway is to stop, if it is. `requested`: a signal to stop has arrived.
    fn cause(&self, requested: bool, moment: u64) -> Option<StopCause>
        ensures { result ≡ cause_of requested self.now.ends_at moment }
    {
        if requested {
            return Some(StopCause::Signal);
        }
        if self.is_over(moment) {
            return Some(StopCause::Duration);
        }
        None
    }

    /// Notes that the gateway is to stop, and returns why. None if it isn't to stop, or if that was noted before.
    /// `requested`: a signal to stop has arrived.
    pub(crate) fn stop(&mut self, requested: bool, moment: u64) -> Option<StopCause>
        ensures result { result ≡ stop_of self.old requested moment }
        ensures new { self.new ≡ after_stop self.old requested moment }
    {
        if self.requested_at.is_some() {
            return None;
        }
        let cause = self.cause(requested, moment);
        if cause.is_some() {
            self.requested_at = Some(moment);
        }
        cause
    }

    /// Returns the next step of the stop. `is_quiet`: no session is open, and nothing is left to send.
    pub(crate) fn step(&self, moment: u64, is_quiet: bool) -> StopStep
        ensures { result ≡ stop_step self.now.requested_at moment is_quiet }
    {
        stop_step(self.requested_at, moment, is_quiet)
    }
}
