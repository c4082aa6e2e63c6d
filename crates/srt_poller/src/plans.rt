//! When routes open and close: the plan of a route, and what the beginning of a round does with those of all routes.

ghost use Rattle.std.specs.Prelude.{◌≡◌, ◌<◌, ◌≤◌, ◌+◌, ◌^◌, ℕ, true, length, map};
ghost use Rattle.srt_lobby.specs.Names.{names_of};
ghost use Rattle.srt_poller.specs.Schedules.{offered, is_due};
ghost use Rattle.srt_poller.specs.Plans.{schedule_of};
ghost use Rattle.srt_poller.specs.Beginnings.{RouteRests, RestBetween, Closes};

use crate::context::PollerTask;
use crate::ends::Ends;
use crate::latest::Latest;
use crate::signals::Hints;
use srt_lobby::Names;
use srt_types::Schedule;
use std::sync::Wait;

/// The number of no round: a route with this opening round hasn't opened, and opens only once it gets another one.
pub(crate) const NEVER: u64 = u64::MAX;

/// When a route opens and closes.
#[derive(Clone, Copy, Default)]
pub(crate) struct Plan {
    /// The round in which it becomes visible, or `NEVER`.
    pub(crate) open_round: u64,
    /// The round from which it is closed, if there is one.
    pub(crate) close_round: Option<u64>,
}

impl Plan {
    ghost use Rattle.std.specs.Prelude.{◌==◌, ◌&&◌, not, true, false};
    ghost use Rattle.srt_poller.specs.Schedules.{has_come};
    ghost use Rattle.srt_poller.specs.Plans.{never, may_open, closed_from};

    /// Returns the plan of a route with this schedule.
    #[inline(always)]
    pub(crate) fn of(schedule: Schedule) -> Plan
        ensures same { schedule_of result ≡ schedule }
        ensures limit { result.open_round < 2 ^ 32 }
    {
        let close_round = match schedule.close_round {
            Some(close_round) => Some(close_round as u64),
            None => None,
        };
        Plan {
            open_round: schedule.open_round as u64,
            close_round,
        }
    }

    /// Whether its closing round is this one or an earlier one.
    #[inline(always)]
    pub(crate) fn closes_by(self, round: u64) -> bool
        ensures { result ≡ has_come round self.close_round }
    {
        match self.close_round {
            Some(close_round) => close_round <= round,
            None => false,
        }
    }

    /// Whether the route is closed in this round, if it is visible: the round closes all, or the route's closing round is
    /// this one or an earlier one.
    #[inline(always)]
    pub(crate) fn is_over(&self, round: u64, closes_all: bool) -> bool
        ensures { result ≡ is_due closes_all round self.now.close_round }
    {
        closes_all | self.closes_by(round)
    }

    /// Whether the route becomes visible as soon as no visible route has its name: it has no opening round, and no closing
    /// round up to this one.
    #[inline(always)]
    fn waits(self, round: u64) -> bool
        ensures { result ≡ ((self.open_round == never) && not (has_come round self.close_round)) }
    {
        self.open_round == NEVER && !self.closes_by(round)
    }

    /// Whether the route becomes visible in this round, if no visible route has its name: it waits, or this is its opening
    /// round.
    #[inline(always)]
    pub(crate) fn may_open(self, round: u64) -> bool
        ensures { result ≡ may_open round (schedule_of self) }
    {
        self.open_round == round || self.waits(round)
    }

    /// Returns the plan of a route that is requested to close before this round begins: if it hasn't opened yet, it never
    /// does.
    pub(crate) fn closed_from(self, round: u64) -> Plan
        ensures { schedule_of result ≡ closed_from round (schedule_of self) }
    {
        let open_round = if self.open_round < round {
            self.open_round
        } else {
            NEVER
        };
        let close_round = match self.close_round {
            Some(close_round) => close_round.min(round),
            None => round,
        };
        Plan {
            open_round,
            close_round: Some(close_round),
        }
    }

    /// Returns the first round after this one in which the route may become visible: the next one if it waits for its name.
    /// 2^64 - 1 if there is none.
    fn opens_next(&self, round: u64) -> u64
        ensures rests { (k : ℕ) → round < k → k < result → may_open k (schedule_of self.now) ≡ false }
        ensures waits { may_open (round + 1) (schedule_of self.now) ≡ true → result ≤ round + 1 }
    {
        if self.waits(round) {
            return round.saturating_add(1);
        }
        if self.open_round > round {
            return self.open_round;
        }
        NEVER
    }

    /// Returns the first round after this one in which the route is closed, if the rounds until then don't close all; 2^64 - 1
    /// if there is none.
    fn closes_next(&self, is_shown: bool, round: u64) -> u64
        ensures { (k : ℕ) → round < k → k < result → (has_come k self.now.close_round && is_shown) ≡ false }
    {
        match self.close_round {
            Some(close_round) => {
                if close_round > round {
                    close_round
                } else if is_shown {
                    round.saturating_add(1)
                } else {
                    NEVER
                }
            }
            None => NEVER,
        }
    }

    /// Returns the first round after this one in which the route may open or close, if the rounds until then don't close
    /// all; 2^64 - 1 if there is none.
    fn next_of(&self, is_shown: bool, round: u64) -> u64
        ensures { (k : ℕ) → round < k → k < result → RouteRests k (schedule_of self.now) is_shown }
    {
        self.opens_next(round)
            .min(self.closes_next(is_shown, round))
    }
}

/// Offers Close with the latest timestamp to a route, and hides it if its inbox accepted that. Returns whether it did.
pub(crate) fn close_one<R: Wait, G: Hints>(
    task: &PollerTask<R, G>,
    latest: Latest,
    names: &mut Names,
    ends: &mut [Ends],
    route: usize,
) -> bool
    requires known { route < length (names_of names.old) }
    requires route { route < length ends.old }
    ensures closes { Closes latest.moment (offered route result) (names_of names.old) (names_of names.new) ends.old ends.new }
    ensures noticed { result ≡ true → G.noticed task.now.signals.now route }
{
    let Ok(()) = ends[route].ingress.offer_close(task.rt, latest.moment) else {
        return false;
    };
    task.signals.polled(route);
    names.hide(route);
    true
}

/// Returns the first round after this one in which a route may open or close, if the rounds until then don't close all;
/// 2^64 - 1 if there is none.
pub(crate) fn next_due(plans: &[Plan], names: &Names, round: u64) -> u64
    requires { length plans.now ≡ length (names_of names.now) }
    ensures { RestBetween (round + 1) result (map schedule_of plans.now) (names_of names.now) }
{
    let mut next = u64::MAX;
    let mut route = 0;
    for plan in plans {
        next = next.min(plan.next_of(names.shows(route), round));
        route += 1;
    }
    next
}
