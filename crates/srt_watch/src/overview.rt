//! The gateway as a whole, as the status page shows it.

ghost use Rattle.std.specs.Prelude.{◌≡◌};
ghost use Rattle.srt_watch.specs.Overview.{after_report, with_report, no_overview, with_refused, gateway_of};

use crate::census::{count_cause, count_refusal};
use srt_status::{CauseCounts, ChangeCounts, GatewayStatus, ProcessUse, RefusalCounts};
use srt_supervision::{Report, RunStatus};
use srt_types::NotAdmitted;

/// The time without a report after which the poller counts as stalled, in microseconds.
const ROUND_MISSED: u64 = 2_000_000;

/// The poller's last report.
#[derive(Clone, Copy)]
struct PollerReport {
    counts: Report,
    // the number of reports, and the time of the last one
    reports: u64,
    reported_at: u64,
}

impl PollerReport {
    // Notes the counters that a run has at this time.
    fn note(&mut self, moment: u64, status: RunStatus)
        ensures { self.new ≡ after_report self.old moment status }
    {
        self.counts = status.counts;
        if status.reports != self.reports {
            self.reports = status.reports;
            self.reported_at = moment;
        }
    }
}

/// The gateway as a whole, at the last snapshot.
#[derive(Clone, Copy)]
pub(crate) struct Overview {
    /// The datagrams dropped by the kernel; `None` if that isn't known.
    pub drops: Option<u64>,
    /// The memory of the process, in bytes; `None` if that isn't known.
    pub memory: Option<u64>,
    /// What the process uses besides.
    pub process: ProcessUse,
    /// The bytes that the kernel holds for datagrams before it drops any; `None` if that isn't known.
    pub receive_buffer: Option<u64>,
    // the refusals of the lobby
    refused: RefusalCounts,
    causes: CauseCounts,
    poller: PollerReport,
}

impl Overview {
    /// Returns the one of a gateway that begins.
    pub(crate) fn new() -> Overview
        ensures { result ≡ no_overview }
    {
        Overview {
            drops: None,
            memory: None,
            process: ProcessUse::default(),
            receive_buffer: None,
            refused: RefusalCounts::default(),
            causes: CauseCounts::default(),
            poller: PollerReport {
                counts: Report::NOTHING,
                reports: 0,
                reported_at: 0,
            },
        }
    }

    /// Notes the poller's counters, and the time if they are of a new report.
    pub(crate) fn note_poller(&mut self, moment: u64, status: RunStatus)
        ensures { self.new ≡ with_report self.old moment status }
    {
        self.poller.note(moment, status);
    }

    /// Counts a refusal by the lobby.
    pub(crate) fn count_refusal(&mut self, code: u32, cause: Option<NotAdmitted>)
        ensures { self.new ≡ with_refused self.old code cause }
    {
        count_refusal(&mut self.refused, code);
        count_cause(&mut self.causes, cause);
    }

    /// Returns the status at this time of a gateway that has this many routes, and whose configuration was changed so often.
    pub(crate) fn status<'v>(
        &self,
        version: &'v str,
        moment: u64,
        routes: usize,
        changes: ChangeCounts,
    ) -> GatewayStatus<'v>
        ensures { result ≡ gateway_of self.now version.entry moment routes changes }
    {
        GatewayStatus {
            version,
            uptime_seconds: moment / 1_000_000,
            moment,
            routes: u32::try_from(routes).unwrap_or(u32::MAX),
            polling: moment.saturating_sub(self.poller.reported_at) < ROUND_MISSED,
            poller: self.poller.counts,
            refused: self.refused,
            causes: self.causes,
            changes,
            kernel_drops: self.drops,
            resident_bytes: self.memory,
            process: self.process,
            receive_buffer_bytes: self.receive_buffer,
        }
    }
}
