//! Snapshots of a route.

ghost use Rattle.std.specs.Prelude.{◌≡◌};
ghost use Rattle.srt_route.specs.Ledgers.{opened_in};
ghost use Rattle.srt_watch.specs.Showing.{AreShown, AreSlots, AreEnds, first_snapshot};

use srt_log::{RouteSnapshot, SlotSession, slot_of};
use srt_route::{EndedSession, Route, SessionView};
use srt_types::product_limits::MAX_SESSIONS;

/// Returns the open sessions of a route, by their slots.
#[tactic(auto, using(crate::proofs::ShownSlots::none_shown, crate::proofs::ShownSlots::next_shown))]
pub(crate) fn sessions_of(route: &Route) -> [Option<SessionView>; MAX_SESSIONS]
    ensures { AreShown 17 route.now result }
{
    let mut sessions = [None; MAX_SESSIONS];
    for slot in 0..MAX_SESSIONS {
        sessions[slot] = route.session(slot);
    }
    sessions
}

// Returns the session of each slot: of the open sessions, or else the one that ended there last.
#[tactic(auto, using(crate::proofs::ShownSlots::no_slots, crate::proofs::ShownSlots::next_slot))]
fn slots_of(
    route: &Route,
    sessions: &[Option<SessionView>; MAX_SESSIONS],
) -> [Option<SlotSession>; MAX_SESSIONS]
    ensures { AreSlots 17 route.now sessions.now result }
{
    let mut slots = [None; MAX_SESSIONS];
    for slot in 0..MAX_SESSIONS {
        slots[slot] = slot_of(sessions[slot], route.ended(slot));
    }
    slots
}

// Returns the session that ended last in each slot, also where another one is open now.
#[tactic(auto, using(crate::proofs::ShownSlots::no_ends, crate::proofs::ShownSlots::next_end))]
fn ends_of(route: &Route) -> [Option<EndedSession>; MAX_SESSIONS]
    ensures { AreEnds 17 route.now result }
{
    let mut ends = [None; MAX_SESSIONS];
    for slot in 0..MAX_SESSIONS {
        ends[slot] = route.ended(slot);
    }
    ends
}

/// Returns a snapshot of a route, whose open sessions are these, at this time in microseconds. `stops`: the gateway is
/// about to end.
pub(crate) fn snapshot_of(
    route: &Route,
    sessions: &[Option<SessionView>; MAX_SESSIONS],
    moment: u64,
    stops: bool,
) -> RouteSnapshot
    ensures moment { result.moment ≡ moment }
    ensures stops { result.stops ≡ stops }
    ensures slots { AreSlots 17 route.now sessions.now result.slots }
    ensures ended { AreEnds 17 route.now result.ended }
    ensures opened { result.opened ≡ opened_in route.now }
{
    RouteSnapshot {
        moment,
        stops,
        slots: slots_of(route, sessions),
        ended: ends_of(route),
        opened: route.opened(),
    }
}

/// Returns the snapshot before the first event of a route.
pub(crate) fn first_snapshot() -> RouteSnapshot
    ensures { result ≡ first_snapshot }
{
    RouteSnapshot {
        moment: 0,
        stops: false,
        slots: [None; MAX_SESSIONS],
        ended: [None; MAX_SESSIONS],
        opened: 0,
    }
}
