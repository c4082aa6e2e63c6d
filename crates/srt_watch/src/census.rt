//! The status of a route, and the counts of refusals.

ghost use Rattle.std.specs.Prelude.{◌≡◌};
ghost use Rattle.srt_watch.specs.Census.{refusals_of, limits_of, status_with, with_refusal, with_cause, grown_limits, with_look, absence_at};

use srt_hs::RefusalCode;
use srt_route::{RefusalCause, Route, SessionView, Totals};
use srt_status::{CauseCounts, LimitCounts, RefusalCounts, RouteStatus, round_trip_in};
use srt_types::product_limits::MAX_SESSIONS;
use srt_types::{NotAdmitted, Role};

// Returns the conclusions that a route refused, by their codes.
fn refusals_of(route: &Route) -> RefusalCounts
    ensures { result ≡ refusals_of route.now }
{
    RefusalCounts {
        peer: route.refused(RefusalCode::Peer),
        resource: route.refused(RefusalCode::Resource),
        rogue: route.refused(RefusalCode::Rogue),
        version: route.refused(RefusalCode::Version),
        bad_secret: route.refused(RefusalCode::BadSecret),
        unsecure: route.refused(RefusalCode::Unsecure),
        message_api: route.refused(RefusalCode::MessageApi),
        filter: route.refused(RefusalCode::Filter),
        group: route.refused(RefusalCode::Group),
    }
}

/// Returns how many conclusions each limit of a route refused.
pub(crate) fn limits_of(route: &Route) -> LimitCounts
    ensures { result ≡ limits_of route.now }
{
    LimitCounts {
        sessions: route.refused_for(RefusalCause::Resource),
        reserved: route.refused_for(RefusalCause::Reserved),
        sessions_per_address: route.refused_for(RefusalCause::Address),
    }
}

/// Updates the status of a route at this moment, in microseconds of the routes' clock: its open sessions and totals are these. Its
/// name, its mode, the number of sessions allowed and the take-overs stay.
pub(crate) fn note_route(
    moment: u64,
    route: &Route,
    sessions: &[Option<SessionView>; MAX_SESSIONS],
    totals: Totals,
    status: &mut RouteStatus,
)
    ensures { status.new ≡ status_with moment route.now sessions.now totals status.old }
{
    status.sessions = *sessions;
    status.totals = totals;
    status.opened = route.opened();
    status.refused = refusals_of(route);
    status.limits = Some(limits_of(route));
    let round_trip = round_trip_in(sessions);
    status.history.note(moment, &totals.received, round_trip);
}

/// Looks whether a route with these open sessions is on air at this moment, in microseconds of the routes' clock, if it is expected to be. Returns
/// the minutes that a line is to tell of, if one is due. `stops`: the gateway is about to end, so nothing is expected any more.
pub(crate) fn look_at(
    status: &mut RouteStatus,
    sessions: &[Option<SessionView>; MAX_SESSIONS],
    moment: u64,
    stops: bool,
) -> Option<u64>
    ensures status { status.new ≡ with_look stops sessions.now moment status.old }
    ensures line { result ≡ absence_at stops sessions.now moment status.old.expectation }
{
    if stops {
        return None;
    }
    match status.expectation {
        Some(before) => {
            let mut expectation = before;
            let line = expectation.look(sessions, moment);
            status.expectation = Some(expectation);
            line
        }
        None => None,
    }
}

/// Counts a refusal by its code (draft-sharabayko-srt-01, section 4.3, table 7). A code that the gateway never sends isn't
/// counted. A count stops at 2^64 - 1.
pub(crate) fn count_refusal(counts: &mut RefusalCounts, code: u32)
    ensures { counts.new ≡ with_refusal counts.old code }
{
    match code {
        1002 => counts.peer = counts.peer.saturating_add(1),
        1003 => counts.resource = counts.resource.saturating_add(1),
        1004 => counts.rogue = counts.rogue.saturating_add(1),
        1008 => counts.version = counts.version.saturating_add(1),
        1010 => counts.bad_secret = counts.bad_secret.saturating_add(1),
        1011 => counts.unsecure = counts.unsecure.saturating_add(1),
        1012 => counts.message_api = counts.message_api.saturating_add(1),
        1014 => counts.filter = counts.filter.saturating_add(1),
        1015 => counts.group = counts.group.saturating_add(1),
        _ => {}
    }
}

/// Counts the reason for which the lobby refused a conclusion with 1002. A count stops at 2^64 - 1.
pub(crate) fn count_cause(counts: &mut CauseCounts, cause: Option<NotAdmitted>)
    ensures { counts.new ≡ with_cause counts.old cause }
{
    let Some(cause) = cause else {
        return;
    };
    match cause {
        NotAdmitted::NoName => counts.no_name = counts.no_name.saturating_add(1),
        NotAdmitted::UnknownName => counts.unknown_name = counts.unknown_name.saturating_add(1),
        NotAdmitted::Address(Role::Publish) => {
            counts.publish_from = counts.publish_from.saturating_add(1);
        }
        NotAdmitted::Address(Role::Request) => {
            counts.request_from = counts.request_from.saturating_add(1);
        }
        NotAdmitted::Key(Role::Publish) => {
            counts.publish_key = counts.publish_key.saturating_add(1);
        }
        NotAdmitted::Key(Role::Request) => {
            counts.request_key = counts.request_key.saturating_add(1);
        }
    }
}

/// Returns how many conclusions each limit of a route refused between two snapshots, if `reserved` or
/// `sessions_per_address` refused any. `None` otherwise, since a refusal for lack of a slot has its own line.
pub(crate) fn grown_limits(before: LimitCounts, now: Option<LimitCounts>) -> Option<LimitCounts>
    ensures { result ≡ grown_limits before now }
{
    let Some(now) = now else {
        return None;
    };
    let grown = LimitCounts {
        sessions: now.sessions.saturating_sub(before.sessions),
        reserved: now.reserved.saturating_sub(before.reserved),
        sessions_per_address: now
            .sessions_per_address
            .saturating_sub(before.sessions_per_address),
    };
    if grown.reserved == 0 && grown.sessions_per_address == 0 {
        return None;
    }
    Some(grown)
}
