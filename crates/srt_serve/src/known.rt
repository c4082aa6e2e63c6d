//! What the watching thread knows between two rests of its watcher.

ghost use Rattle.std.specs.Prelude.{◌≡◌};
ghost use Rattle.srt_serve.specs.inside.Watched.{known_first, known_with_report, known_checked, status_of};

use crate::counters::{Count, MissedRefusals, SocketFaults};
use crate::evidence::RunOver;
use srt_supervision::{Report, RunStatus};

// The number of checks in a row that find all quiet before that is reported. A hint is cleared before its outbox is
// drained, so that one check alone may miss replies that are being sent.
const QUIET_CHECKS: u32 = 2;

/// What is known between two rests of the watcher. It has no `Drop`, and only `end` takes it, with evidence that the run was
/// over: so the watching thread can't begin anew meanwhile.
pub struct Known {
    // the counts that the poller reported last, and how often it reported any
    counts: Report,
    reports: u64,
    // how many checks in a row found all quiet
    quiet: u32,
}

impl Known {
    /// Nothing was reported, and nothing checked.
    pub const fn new() -> Known
        ensures { result ≡ known_first }
    {
        Known {
            counts: Report::NOTHING,
            reports: 0,
            quiet: 0,
        }
    }

    /// Notes one report more.
    pub fn note(&mut self, report: Report)
        ensures { self.new ≡ known_with_report report self.old }
    {
        self.counts = report;
        self.reports = self.reports.saturating_add(1);
    }

    /// Notes a check that found all quiet or not.
    pub fn check(&mut self, is_quiet: bool)
        ensures { self.new ≡ known_checked is_quiet self.old }
    {
        self.quiet = if is_quiet {
            self.quiet.saturating_add(1)
        } else {
            0
        };
    }

    /// Returns what the watcher gets before its next rest.
    pub fn status(&self, faults: &Count<SocketFaults>, missed: &Count<MissedRefusals>) -> RunStatus
        ensures { result ≡ status_of self.now faults.now.number missed.now.number }
    {
        RunStatus {
            is_quiet: self.quiet >= QUIET_CHECKS,
            faults: faults.number,
            missed: missed.number,
            counts: self.counts,
            reports: self.reports,
        }
    }

    /// Ends it with its run. Returns the evidence.
    pub fn end(self, over: RunOver) -> RunOver
        ensures { result ≡ over }
    {
        let Known {
            counts: _,
            reports: _,
            quiet: _,
        } = self;
        over
    }
}
