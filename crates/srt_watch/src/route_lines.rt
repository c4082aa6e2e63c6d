//! The lines of what changed between two snapshots of a route.

ghost use Rattle.std.specs.Prelude.{◌≡◌};
ghost use Rattle.srt_watch.specs.Log.{Logged};
ghost use Rattle.srt_watch.specs.RouteLines.{step_calls, calls_to, change_calls, limit_calls, absence_calls, take_over_more, take_overs_to};
ghost use Rattle.srt_watch.specs.RouteLines.{cause_in, cause_at, cause_between, with_unseen, end_more, ends_to};
ghost use Rattle.srt_status.specs.Labels.{with_end};

use crate::log::{LogWriter, When};
use crate::watched_routes::SnapshotPair;
use srt_log::{
    Change, LineKind, LogEvent, RouteSnapshot, STEPS, SlotSession, change_at, end_between, event_of,
};
use srt_route::EndCause;
use srt_status::{EndCounts, LimitCounts};
use srt_types::product_limits::MAX_SESSIONS;
use std::io::Write;

/// The name of a route, and the time at which its lines are written.
#[derive(Clone, Copy)]
pub(crate) struct RouteLog<'n> {
    pub name: &'n [u8],
    pub when: When,
}

// Writes the line of what changed in a step, if something did.
#[tactic(auto, using(crate::proofs::Logging::logged_nothing))]
fn log_step<W: Write + Drop>(
    log: &mut LogWriter<W>,
    route: RouteLog<'_>,
    pair: &SnapshotPair,
    step: usize,
)
    ensures { Logged (W.contents log.old.out.out) (W.contents log.new.out.out) log.old.pace log.new.pace
        (step_calls route.entry.when route.entry.name pair.now step) }
{
    if let Some(change) = change_at(&pair.old, &pair.new, step) {
        if let Some(event) = event_of(route.name, &pair.old, &pair.new, change) {
            log.append(route.when, LineKind::Session, event);
        }
    }
}

/// Writes the lines of what changed between two snapshots of the route with this name.
#[tactic(auto, using(crate::proofs::RouteLines::no_steps, crate::proofs::RouteLines::next_step))]
pub(crate) fn log_changes<W: Write + Drop>(
    log: &mut LogWriter<W>,
    route: RouteLog<'_>,
    pair: &SnapshotPair,
)
    ensures { Logged (W.contents log.old.out.out) (W.contents log.new.out.out) log.old.pace log.new.pace
        (change_calls route.entry.when route.entry.name pair.now) }
{
    for step in 0..STEPS {
        log_step(log, route, pair, step);
    }
}

// Counts a take-over, if this is one.
fn counted(count: u64, change: Option<Change>) -> u64
    ensures { result ≡ take_over_more count change }
{
    match change {
        Some(Change::TookOver { .. }) => count.saturating_add(1),
        _ => count,
    }
}

/// Returns how many take-overs there were between two snapshots.
#[tactic(auto, using(crate::proofs::RouteLines::no_take_over, crate::proofs::RouteLines::next_take_over))]
pub(crate) fn take_overs(pair: &SnapshotPair) -> u64
    ensures { result ≡ take_overs_to pair.now.old pair.now.new 120 }
{
    let mut count = 0;
    for step in 0..STEPS {
        count = counted(count, change_at(&pair.old, &pair.new, step));
    }
    count
}

// Returns why the session of a slot ended; `None` if it hasn't.
fn cause_in(slot: &Option<SlotSession>) -> Option<EndCause>
    ensures { result ≡ cause_in slot.now }
{
    match slot {
        Some(SlotSession::Ended(ended)) => Some(ended.cause),
        Some(SlotSession::Open(_)) | None => None,
    }
}

// Returns why the session of this slot ended; `None` if it hasn't.
fn cause_at(snapshot: &RouteSnapshot, slot: usize) -> Option<EndCause>
    ensures { result ≡ cause_at snapshot.now slot }
{
    if slot < MAX_SESSIONS {
        cause_in(&snapshot.slots[slot])
    } else {
        None
    }
}

// Returns why the session ended that the earlier of two snapshots has in this slot, if the later one has its end.
fn cause_between(old: &RouteSnapshot, new: &RouteSnapshot, slot: usize) -> Option<EndCause>
    ensures { result ≡ cause_between old.now new.now slot }
{
    match end_between(old, new, slot) {
        Some(ended) => Some(ended.cause),
        None => None,
    }
}

// Returns these counts after this many ends more whose reason isn't known.
fn with_unseen(counts: EndCounts, opened: u64) -> EndCounts
    ensures { result ≡ with_unseen counts opened }
{
    let mut more = counts;
    more.unknown = more.unknown.saturating_add(opened);
    more
}

// Returns these counts after one end more, by its reason if that is known.
fn with_end(counts: EndCounts, cause: Option<EndCause>) -> EndCounts
    ensures { result ≡ with_end counts cause }
{
    let mut more = counts;
    more.count(cause);
    more
}

// Counts the ends that this change is of, if it is of any: the end of a session by the reason that the later snapshot has, and those of
// sessions that it hasn't as unknown.
fn end_counted(
    counts: EndCounts,
    old: &RouteSnapshot,
    new: &RouteSnapshot,
    change: Option<Change>,
) -> EndCounts
    ensures { result ≡ end_more counts old.now new.now change }
{
    match change {
        Some(Change::Gone { slot }) => with_end(counts, cause_between(old, new, slot)),
        Some(Change::Ended { slot }) => with_end(counts, cause_at(new, slot)),
        Some(Change::Unseen { opened }) => with_unseen(counts, opened),
        _ => counts,
    }
}

/// Returns the counts of ends after those between two snapshots.
#[tactic(auto, using(crate::proofs::RouteLines::no_end, crate::proofs::RouteLines::next_end))]
pub(crate) fn ends_after(counts: EndCounts, pair: &SnapshotPair) -> EndCounts
    ensures { result ≡ ends_to counts pair.now.old pair.now.new 120 }
{
    let mut ends = counts;
    for step in 0..STEPS {
        let change = change_at(&pair.old, &pair.new, step);
        ends = end_counted(ends, &pair.old, &pair.new, change);
    }
    ends
}

/// Writes how many conclusions each limit of the route with this name refused since the last snapshot.
#[tactic(auto, using(crate::proofs::Logging::logged_nothing))]
pub(crate) fn log_limits<W: Write + Drop>(
    log: &mut LogWriter<W>,
    when: When,
    route: &[u8],
    grown: Option<LimitCounts>,
)
    ensures { Logged (W.contents log.old.out.out) (W.contents log.new.out.out) log.old.pace log.new.pace (limit_calls when route.now grown) }
{
    let Some(grown) = grown else {
        return;
    };
    log.append(
        when,
        LineKind::Refusal,
        LogEvent::Limited {
            route,
            full: grown.sessions,
            reserved: grown.reserved,
            per_address: grown.sessions_per_address,
        },
    );
}

/// Writes for how many minutes the route with this name has had no encoder, which is expected to be on air, if such a line is due.
#[tactic(auto, using(crate::proofs::Logging::logged_nothing))]
pub(crate) fn log_absence<W: Write + Drop>(
    log: &mut LogWriter<W>,
    when: When,
    route: &[u8],
    absent: Option<u64>,
)
    ensures { Logged (W.contents log.old.out.out) (W.contents log.new.out.out) log.old.pace log.new.pace (absence_calls when route.now absent) }
{
    let Some(minutes) = absent else {
        return;
    };
    log.append(when, LineKind::Session, LogEvent::Absent { route, minutes });
}
