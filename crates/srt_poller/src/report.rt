//! What a poller counts.

ghost use Rattle.std.specs.Prelude.{◌≡◌};
ghost use Rattle.srt_poller.specs.declared.devices.Sent.{Sent as TheSent};
ghost use Rattle.srt_poller.specs.Reports.{with_fault, with_answer, with_reply, with_accepted, with_full, with_refused, with_dropped};

use crate::devices::Sent;
use crate::memory::MemoryRefused;
use srt_lobby::Cause;
use srt_supervision::Report;

/// A wait or a read failed.
pub(crate) fn count_fault(report: &mut Report)
    ensures { report.new ≡ with_fault report.old }
{
    report.faults = report.faults.saturating_add(1);
}

/// A datagram was read, and its answer was sent with this outcome.
pub(crate) fn count_answer(report: &mut Report, sent: Sent)
    ensures { report.new ≡ with_answer report.old sent }
{
    report.read = report.read.saturating_add(1);
    report.answered = report.answered.saturating_add(1);
    match sent {
        Sent::Taken => report.sent = report.sent.saturating_add(1),
        Sent::Later => report.lost = report.lost.saturating_add(1),
        Sent::Failed => {
            report.lost = report.lost.saturating_add(1);
            report.faults = report.faults.saturating_add(1);
        }
    }
}

/// A reply was sent with this outcome.
#[inline(always)]
pub(crate) fn count_reply(report: &mut Report, sent: Sent)
    ensures { report.new ≡ with_reply report.old sent }
{
    match sent {
        Sent::Taken => report.sent = report.sent.saturating_add(1),
        Sent::Later => {}
        Sent::Failed => {
            report.lost = report.lost.saturating_add(1);
            report.faults = report.faults.saturating_add(1);
        }
    }
}

/// A datagram was read, and its route's inbox accepted it.
#[inline(always)]
pub(crate) fn count_accepted(report: &mut Report)
    ensures { report.new ≡ with_accepted report.old }
{
    report.read = report.read.saturating_add(1);
    report.accepted = report.accepted.saturating_add(1);
}

/// A datagram was read, and its route's inbox was full.
pub(crate) fn count_full(report: &mut Report)
    ensures { report.new ≡ with_full report.old }
{
    report.read = report.read.saturating_add(1);
    report.full = report.full.saturating_add(1);
}

/// A datagram was read, and the memory for its copy was refused, by this evidence.
pub(crate) fn count_refused(report: &mut Report, _refused: MemoryRefused)
    ensures { report.new ≡ with_refused report.old }
{
    report.read = report.read.saturating_add(1);
    report.memory = report.memory.saturating_add(1);
}

/// A datagram was read, and the lobby dropped it for this cause.
pub(crate) fn count_dropped(report: &mut Report, cause: Cause)
    ensures { report.new ≡ with_dropped report.old cause }
{
    report.read = report.read.saturating_add(1);
    report.dropped = report.dropped.saturating_add(1);
    match cause {
        Cause::NotAllowed => report.not_allowed = report.not_allowed.saturating_add(1),
        _ => {}
    }
}
