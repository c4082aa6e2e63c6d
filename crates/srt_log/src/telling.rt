//! What the log states of a change.

ghost use Rattle.std.specs.Prelude.{◌≡◌};
ghost use Rattle.srt_log.specs.Snapshots.{ppm_of, clock_after, clock_of, reason_of, latency_of};
ghost use Rattle.srt_log.specs.Telling.{session_at, last_end, if_same, end_between, caller_of, stands_by, opened_event, end_event, ended_event};
ghost use Rattle.srt_log.specs.Telling.{gone_event, replaced_event, took_over_event, troubled_event, event_of};

use crate::changes::{Change, is_same_view};
use crate::events::{Caller, ClockDrift, EndReason, LogEvent, Trouble};
use crate::snapshots::{RouteSnapshot, SlotSession};
use srt_route::{EndCause, EndedSession, SessionView, Traffic};
use srt_types::Role;
use srt_types::product_limits::MAX_SESSIONS;

// Returns why a session ended. `stops`: the gateway is about to end.
fn reason_of(stops: bool, cause: EndCause) -> EndReason
    ensures { result ≡ reason_of stops cause }
{
    match cause {
        EndCause::Shutdown | EndCause::Drained => EndReason::Shutdown,
        EndCause::DrainedTooLong => EndReason::DrainedTooLong,
        EndCause::Silence => EndReason::Silence,
        EndCause::WindowLost => EndReason::WindowLost,
        EndCause::FileEnded => EndReason::StreamEnd,
        EndCause::Closed => {
            if stops {
                EndReason::GatewayStops
            } else {
                EndReason::RouteClosed
            }
        }
    }
}

// Returns a correction in parts per million of this time, rounded toward 0. Both are in microseconds.
fn ppm_of(correction: i64, elapsed: u64) -> i128
    ensures { result ≡ ppm_of correction elapsed }
{
    if elapsed == 0 {
        return 0;
    }
    1_000_000 * i128::from(correction) / i128::from(elapsed)
}

// Returns how a clock was followed that has this correction after this time.
fn clock_after(correction: Option<i64>, elapsed: u64) -> Option<ClockDrift>
    ensures { result ≡ clock_after correction elapsed }
{
    match correction {
        Some(micros) => Some(ClockDrift {
            ppm: ppm_of(micros, elapsed),
            correction: micros,
        }),
        None => None,
    }
}

// Returns how the clock of a session was followed that was open for this time, in microseconds.
fn clock_of(traffic: &Traffic, elapsed: u64) -> Option<ClockDrift>
    ensures { result ≡ clock_of traffic.now elapsed }
{
    match traffic {
        Traffic::Received(statistics) => clock_after(statistics.correction, elapsed),
        Traffic::Sent(_) => None,
    }
}

// Returns a latency in milliseconds; `None` for 0, which only a session in buffer mode has.
fn latency_of(latency_ms: u16) -> Option<u32>
    ensures { result ≡ latency_of latency_ms }
{
    if latency_ms == 0 {
        None
    } else {
        Some(u32::from(latency_ms))
    }
}

// Returns the session in a slot.
fn session_at(snapshot: &RouteSnapshot, slot: usize) -> Option<SlotSession>
    ensures { result ≡ session_at snapshot.now slot }
{
    if slot < MAX_SESSIONS {
        snapshot.slots[slot]
    } else {
        None
    }
}

// Returns the session that ended last in this slot.
fn last_end(snapshot: &RouteSnapshot, slot: usize) -> Option<EndedSession>
    ensures { result ≡ last_end snapshot.now slot }
{
    if slot < MAX_SESSIONS {
        snapshot.ended[slot]
    } else {
        None
    }
}

// Returns the end of this session, if the session that ended last in this slot is this one.
fn end_of(snapshot: &RouteSnapshot, slot: usize, view: &SessionView) -> Option<EndedSession>
    ensures { result ≡ if_same view.now (last_end snapshot.now slot) }
{
    let ended = last_end(snapshot, slot)?;
    if is_same_view(view, &ended.view) {
        Some(ended)
    } else {
        None
    }
}

/// Returns the end of the session that the earlier of two snapshots has in a slot, if the later one has it as the last that ended there.
/// `None` otherwise: others have ended there since, or it hasn't ended.
pub fn end_between(old: &RouteSnapshot, new: &RouteSnapshot, slot: usize) -> Option<EndedSession>
    ensures { result ≡ end_between old.now new.now slot }
{
    let session = session_at(old, slot)?;
    end_of(new, slot, session.view())
}

// Returns a session as a line names it.
fn caller_of<'a>(route: &'a [u8], view: &SessionView) -> Caller<'a>
    ensures { result ≡ caller_of route.entry view.now }
{
    Caller {
        route,
        role: view.role,
        peer: view.peer,
        id: view.id,
    }
}

// Whether a session is a publisher that isn't the active one.
fn stands_by(view: &SessionView) -> bool
    ensures { result ≡ stands_by view.now }
{
    match view.role {
        Role::Publish => !view.is_active,
        Role::Request => false,
    }
}

fn opened_event<'a>(route: &'a [u8], view: &SessionView) -> LogEvent<'a>
    ensures { result ≡ opened_event route.entry view.now }
{
    LogEvent::Opened {
        caller: caller_of(route, view),
        standby: stands_by(view),
        latency_ms: latency_of(view.latency_ms),
        key_length: view.key_length,
    }
}

// Returns the event of an end.
fn end_event<'a>(route: &'a [u8], stops: bool, ended: &EndedSession) -> LogEvent<'a>
    ensures { result ≡ end_event route.entry stops ended.now }
{
    let elapsed = ended.moment.saturating_sub(ended.view.opened);
    LogEvent::Ended {
        caller: caller_of(route, &ended.view),
        reason: reason_of(stops, ended.cause),
        lasted_ms: elapsed / 1000,
        traffic: ended.view.traffic,
        clock: clock_of(&ended.view.traffic, elapsed),
    }
}

fn ended_event<'a>(route: &'a [u8], stops: bool, session: &SlotSession) -> Option<LogEvent<'a>>
    ensures { result ≡ ended_event route.entry stops session.now }
{
    match session {
        SlotSession::Open(_) => None,
        SlotSession::Ended(ended) => Some(end_event(route, stops, ended)),
    }
}

// Returns the event of a session that is gone. It lasted at least to this time.
fn gone_event<'a>(route: &'a [u8], view: &SessionView, moment: u64) -> LogEvent<'a>
    ensures { result ≡ gone_event route.entry view.now moment }
{
    let elapsed = moment.saturating_sub(view.opened);
    LogEvent::Ended {
        caller: caller_of(route, view),
        reason: EndReason::Unknown,
        lasted_ms: elapsed / 1000,
        traffic: view.traffic,
        clock: clock_of(&view.traffic, elapsed),
    }
}

// Returns the event of a session whose slot has another one since: by its end, if the later snapshot has that.
fn replaced_event<'a>(
    route: &'a [u8],
    old: &RouteSnapshot,
    new: &RouteSnapshot,
    slot: usize,
    view: &SessionView,
) -> LogEvent<'a>
    ensures { result ≡ replaced_event route.entry old.now new.now view.now (end_between old.now new.now slot) }
{
    match end_between(old, new, slot) {
        Some(ended) => end_event(route, new.stops, &ended),
        None => gone_event(route, view, old.moment),
    }
}

fn took_over_event<'a>(route: &'a [u8], view: &SessionView) -> LogEvent<'a>
    ensures { result ≡ took_over_event route.entry view.now }
{
    LogEvent::TookOver {
        caller: caller_of(route, view),
    }
}

fn troubled_event<'a>(route: &'a [u8], view: &SessionView, trouble: Trouble) -> LogEvent<'a>
    ensures { result ≡ troubled_event route.entry view.now trouble }
{
    LogEvent::Troubled {
        caller: caller_of(route, view),
        trouble,
    }
}

/// Returns the event of a change between two snapshots of the route of this name. `None` for a change of a slot that has
/// no such session, which [`change_at`](crate::change_at) doesn't return for these snapshots. The event of a session whose
/// slot has another session since has the cause, the time and the counts of its end, if it was the last one that ended there, and otherwise
/// the counts of the earlier snapshot.
pub fn event_of<'a>(
    route: &'a [u8],
    old: &RouteSnapshot,
    new: &RouteSnapshot,
    change: Change,
) -> Option<LogEvent<'a>>
    ensures { result ≡ event_of route.entry old.now new.now change }
{
    match change {
        Change::Gone { slot } => {
            let session = session_at(old, slot)?;
            Some(replaced_event(route, old, new, slot, session.view()))
        }
        Change::Ended { slot } => {
            let session = session_at(new, slot)?;
            ended_event(route, new.stops, &session)
        }
        Change::Opened { slot } => {
            let session = session_at(new, slot)?;
            Some(opened_event(route, session.view()))
        }
        Change::TookOver { slot } => {
            let session = session_at(new, slot)?;
            Some(took_over_event(route, session.view()))
        }
        Change::Troubled { slot, trouble } => {
            let session = session_at(new, slot)?;
            Some(troubled_event(route, session.view(), trouble))
        }
        Change::Unseen { opened } => Some(LogEvent::Unseen { route, opened }),
    }
}
