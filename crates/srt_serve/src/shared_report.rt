//! The poller's counts, as the polling thread leaves them for the watching one.

ghost use Rattle.std.specs.Prelude.{◌≡◌};
ghost use Rattle.srt_serve.specs.inside.Reported.{written_report, read_report};

use crate::counters::{AnyNumber, Count, Counter};
use crate::evidence::{
    CountsLeft, CountsRead, CountsTaken, FlagClear, FlagSet, WordWritten, clear_after, raise_after,
    read_flag,
};
use crate::known::Known;
use srt_supervision::Report;
use std::sync::atomic::AtomicIn;

/// Whether a report is wanted.
pub struct Wanted;

/// `Report::read`.
pub struct DatagramsRead;

/// `Report::answered`.
pub struct DatagramsAnswered;

/// `Report::accepted`.
pub struct DatagramsAccepted;

/// `Report::full`.
pub struct DatagramsRefused;

/// `Report::dropped`.
pub struct DatagramsDropped;

/// `Report::not_allowed`.
pub struct DatagramsNotAllowed;

/// `Report::memory`.
pub struct DatagramsWithoutMemory;

/// `Report::sent`.
pub struct DatagramsSent;

/// `Report::lost`.
pub struct DatagramsLost;

/// `Report::faults`.
pub struct CallsFailed;

/// Evidence that a number of `X` was written.
type NumberWritten<X> = WordWritten<AtomicIn<AnyNumber<X>>>;

/// Evidence that the counts of a report were written, each to its own place.
#[derive(Drop)]
pub struct ReportWritten {
    read: NumberWritten<DatagramsRead>,
    answered: NumberWritten<DatagramsAnswered>,
    accepted: NumberWritten<DatagramsAccepted>,
    full: NumberWritten<DatagramsRefused>,
    dropped: NumberWritten<DatagramsDropped>,
    not_allowed: NumberWritten<DatagramsNotAllowed>,
    memory: NumberWritten<DatagramsWithoutMemory>,
    sent: NumberWritten<DatagramsSent>,
    lost: NumberWritten<DatagramsLost>,
    faults: NumberWritten<CallsFailed>,
}

/// The counts of a report as they were read, each at its own place.
#[derive(Drop)]
pub struct ReportCounts {
    read: Count<AnyNumber<DatagramsRead>>,
    answered: Count<AnyNumber<DatagramsAnswered>>,
    accepted: Count<AnyNumber<DatagramsAccepted>>,
    full: Count<AnyNumber<DatagramsRefused>>,
    dropped: Count<AnyNumber<DatagramsDropped>>,
    not_allowed: Count<AnyNumber<DatagramsNotAllowed>>,
    memory: Count<AnyNumber<DatagramsWithoutMemory>>,
    sent: Count<AnyNumber<DatagramsSent>>,
    lost: Count<AnyNumber<DatagramsLost>>,
    faults: Count<AnyNumber<CallsFailed>>,
}

/// What became of a report that was to be left.
#[derive(Drop)]
pub enum ReportLeft {
    /// Its counts were written, and after that none is wanted.
    Written(CountsLeft<ReportWritten>),
    /// None was wanted.
    Unwanted(FlagClear),
}

/// A report as it was read, once the next one was wanted. It has no `Drop`: whoever took it has to note it.
pub struct ReportRead {
    report: Report,
    taken: CountsTaken<ReportCounts>,
    ghost stated: { report ≡ read_report taken.numbers },
}

/// A report that was noted.
#[derive(Drop)]
pub struct ReportNoted {
    /// The report.
    pub report: Report,
    taken: CountsTaken<ReportCounts>,
    ghost stated: { report ≡ read_report taken.numbers },
}

impl ReportRead {
    ghost use Rattle.srt_serve.specs.inside.Watched.{known_with_report};

    /// Notes the report as the one that was reported last.
    pub fn note(self, known: &mut Known) -> ReportNoted
        ensures { known.new ≡ known_with_report result.report known.old }
    {
        let ReportRead { report, taken } = self;
        known.note(report);
        ReportNoted { report, taken }
    }
}

/// A report that one thread leaves and another one takes. The one writes the counts only while they are wanted, and the
/// other reads them only while they aren't, so that what is taken is a report of one time.
#[derive(Drop)]
pub struct SharedReport {
    // 0 once a report was left, until it is taken
    is_wanted: AtomicIn<AnyNumber<Wanted>>,
    read: Counter<AnyNumber<DatagramsRead>>,
    answered: Counter<AnyNumber<DatagramsAnswered>>,
    accepted: Counter<AnyNumber<DatagramsAccepted>>,
    full: Counter<AnyNumber<DatagramsRefused>>,
    dropped: Counter<AnyNumber<DatagramsDropped>>,
    not_allowed: Counter<AnyNumber<DatagramsNotAllowed>>,
    memory: Counter<AnyNumber<DatagramsWithoutMemory>>,
    sent: Counter<AnyNumber<DatagramsSent>>,
    lost: Counter<AnyNumber<DatagramsLost>>,
    faults: Counter<AnyNumber<CallsFailed>>,
}

// The report of which these are the counts.
fn report_of(counts: &ReportCounts) -> Report
    ensures { result ≡ read_report counts.now }
{
    Report {
        read: counts.read.number,
        answered: counts.answered.number,
        accepted: counts.accepted.number,
        full: counts.full.number,
        dropped: counts.dropped.number,
        not_allowed: counts.not_allowed.number,
        memory: counts.memory.number,
        sent: counts.sent.number,
        lost: counts.lost.number,
        faults: counts.faults.number,
    }
}

impl SharedReport {
    ghost use Rattle.srt_serve.specs.inside.Leaving.{IsLeft};

    /// No report was left yet; the first one is wanted.
    pub fn new() -> SharedReport {
        SharedReport {
            is_wanted: AtomicIn::new(1),
            read: Counter::new(),
            answered: Counter::new(),
            accepted: Counter::new(),
            full: Counter::new(),
            dropped: Counter::new(),
            not_allowed: Counter::new(),
            memory: Counter::new(),
            sent: Counter::new(),
            lost: Counter::new(),
            faults: Counter::new(),
        }
    }

    /// Leaves this report if one is wanted. Costs a load if none is. Only one thread calls this.
    #[inline(always)]
    pub fn leave(&self, report: &Report) -> ReportLeft
        ensures { IsLeft report.now result }
    {
        match read_flag(&self.is_wanted) {
            Ok(_) => { ReportLeft::Written(clear_after(&self.is_wanted, self.write(report))) }
            Err(clear) => ReportLeft::Unwanted(clear),
        }
    }

    // Not written out in the poller's loop: a report is wanted many rounds apart.
    #[inline(never)]
    fn write(&self, report: &Report) -> ReportWritten
        ensures { written_report result ≡ report.now }
    {
        ReportWritten {
            read: self.read.write(report.read),
            answered: self.answered.write(report.answered),
            accepted: self.accepted.write(report.accepted),
            full: self.full.write(report.full),
            dropped: self.dropped.write(report.dropped),
            not_allowed: self.not_allowed.write(report.not_allowed),
            memory: self.memory.write(report.memory),
            sent: self.sent.write(report.sent),
            lost: self.lost.write(report.lost),
            faults: self.faults.write(report.faults),
        }
    }

    // The counts that were left.
    fn read(&self) -> ReportCounts {
        ReportCounts {
            read: self.read.read(),
            answered: self.answered.read(),
            accepted: self.accepted.read(),
            full: self.full.read(),
            dropped: self.dropped.read(),
            not_allowed: self.not_allowed.read(),
            memory: self.memory.read(),
            sent: self.sent.read(),
            lost: self.lost.read(),
            faults: self.faults.read(),
        }
    }

    /// The report that was left since the last was taken; from then on the next one is wanted. The error is evidence that
    /// none was left. Only one thread calls this.
    pub fn take(&self) -> Result<ReportRead, FlagSet> {
        match read_flag(&self.is_wanted) {
            Ok(wanted) => Err(wanted),
            Err(_) => {
                let taken = raise_after(&self.is_wanted, CountsRead::of(self.read()));
                Ok(ReportRead {
                    report: report_of(&taken.numbers),
                    taken,
                })
            }
        }
    }
}
