//! The routes of a run as a poller's rounds use them: as many as there were, or more as openings report them.

ghost use Rattle.std.specs.Prelude.{◌≤◌};
ghost use Rattle.std.specs.Vec.{vec_capacity};

use crate::context::RoundOrder;
use crate::devices::{Source, Wire};
use crate::ends::Ends;
use crate::openings::Openings;
use crate::rounds::PollerRounds;
use crate::signals::Signals;
use crate::visits::Visits;
use srt_lobby::Names;
use std::sync::Wait;

/// The poller's ends of all routes, and the changes of the routes.
pub(crate) trait RouteTable {
    ghost use Rattle.std.specs.Prelude.{◌≡◌, ◌<◌, ◌≤◌, ◌+◌, ◌%◌, ◌==◌, ◌||◌, Bool, Option, None, List, length};
    ghost use Rattle.std.specs.Borrow.{GName};
    ghost use Rattle.srt_lobby.specs.Names.{names_of};
    ghost use Rattle.srt_poller.specs.declared.ends.Ends.{Ends as TheEnds};
    ghost use Rattle.srt_poller.specs.Devices.{heard, carried};
    ghost use Rattle.srt_poller.specs.Pollers.{lobby_setting, listening, begun_phase};
    ghost use Rattle.srt_poller.specs.Beginnings.{RestBetween};
    ghost use Rattle.srt_poller.specs.Openings.{RouteReports};
    ghost use Rattle.srt_poller.specs.Takings.{OpeningsFacts, recorded};
    ghost use Rattle.srt_poller.specs.Plans.{never};
    ghost use Rattle.srt_poller.specs.Changes.{plans_in, ChangedRound};
    ghost use Rattle.srt_poller.specs.inside.Visits.{IsNoted};
    ghost use Rattle.srt_poller.specs.inside.Served.{IsServed};

    /// The ends of all routes, in the order of their indexes.
    ghost list: { Self → List TheEnds };

    /// What its openings have reported.
    ghost reports: { Self → RouteReports };

    /// All answers of its openings whether there are changes.
    ghost answers: { Self → Option (List Bool) };

    /// What is known of its openings when they have recorded something.
    ghost facts: { OpeningsFacts };

    /// What it needs to take changes. Each call keeps it.
    ghost room: { Self → Type 0 };

    /// What it borrows. Each call keeps it.
    ghost borrows: { Self → List GName };

    /// Takes all changes before a round, routes that are added and those that are to close, and makes it
    /// (`PollerRounds::round`).
    fn round<R: Wait, S: Source, W: Wire, G: Signals>(
        &mut self,
        rounds: &mut PollerRounds,
        order: &RoundOrder<R, G>,
        names: &mut Names,
        source: &mut S,
        wire: &mut W,
    ) -> Visits
        requires known { length (plans_in rounds.old.plans) ≡ length (names_of names.old) }
        requires ends { length (list self.old) ≡ length (names_of names.old) }
        requires room { room self.old }
        requires rest { RestBetween rounds.old.next rounds.old.plans.due (plans_in rounds.old.plans) (names_of names.old) }
        requires fits { rounds.old.next < never }
        ensures went { ChangedRound (lobby_setting order.now.task.now.secret.now (G.knows order.now.task.now.signals.now)) facts order.now.closes_all
            rounds.old.next (recorded (answers self.old) (reports self.old)) (recorded (answers self.new) (reports self.new)) (plans_in rounds.old.plans)
            (plans_in rounds.new.plans) (names_of names.old) (names_of names.new) (list self.old) (begun_phase rounds.old.poller)
            (λ es. listening (heard (S.gave source.old) (S.calls source.old)) (carried (W.handed wire.old) (W.attempts wire.old)) es rounds.old.poller)
            (listening (heard (S.gave source.new) (S.calls source.new)) (carried (W.handed wire.new) (W.attempts wire.new)) (list self.new)
            rounds.new.poller)
            rounds.old.plans.latest.moment rounds.new.plans.latest.moment }
        ensures rest { RestBetween rounds.new.next rounds.new.plans.due (plans_in rounds.new.plans) (names_of names.new) }
        ensures next { rounds.new.next ≡ rounds.old.next + 1 }
        ensures ends { length (list self.new) ≡ length (names_of names.new) }
        ensures visited { rounds.new.poller.kept ≡ None → length (list self.new) ≤ result.next }
        ensures checked { result.all ≡ (rounds.old.poller.left || (rounds.old.next % 64 == 0)) }
        ensures left { IsNoted (length (list self.new)) rounds.old.poller.left rounds.new.poller.kept result rounds.new.poller.left }
        ensures served { IsServed (G.served order.now.task.now.signals.now) (G.knows order.now.task.now.signals.now).fault
            rounds.old.poller.report.read rounds.new.poller.report.read }
        ensures room { room self.new }
        ensures same { borrows self.new ≡ borrows self.old };
}

/// No route is added, and none is requested to close.
#[derive(Drop)]
pub(crate) struct FixedRoutes<'a> {
    /// The ends of all routes, in the order of their indexes.
    pub(crate) ends: &'a mut [Ends],
}

impl RouteTable for FixedRoutes<'_> {
    ghost use Rattle.std.specs.Prelude.{None, [], ◌∷◌};
    ghost use Rattle.srt_poller.specs.Openings.{no_reports};
    ghost use Rattle.srt_poller.specs.Takings.{no_facts};

    ghost list = { λ t. t.ends.now };

    ghost reports = { λ t. no_reports };

    ghost answers = { λ t. None };

    ghost facts = { no_facts };

    ghost room = { λ t. Unit {0} };

    ghost borrows = { λ t. t.ends.ghost_name ∷ [] };

    #[inline(always)]
    fn round<R: Wait, S: Source, W: Wire, G: Signals>(
        &mut self,
        rounds: &mut PollerRounds,
        order: &RoundOrder<R, G>,
        names: &mut Names,
        source: &mut S,
        wire: &mut W,
    ) -> Visits {
        rounds.round(order, names, self.ends, source, wire)
    }
}

/// Routes are added, and requested to close, as openings report.
#[derive(Drop)]
pub(crate) struct ChangingRoutes<'a, O> {
    /// The ends of all routes, in the order of their indexes. There is room for 511.
    pub(crate) ends: &'a mut Vec<Ends>,
    /// What reports the changes.
    pub(crate) openings: &'a mut O,
}

impl<O: Openings> RouteTable for ChangingRoutes<'_, O> {
    ghost use Rattle.std.specs.Prelude.{◌≤◌, [], ◌∷◌};
    ghost use Rattle.std.specs.Vec.{vec_capacity};
    ghost use Rattle.srt_poller.specs.Openings.{route_reports};
    ghost use Rattle.srt_poller.specs.Takings.{recorded, facts_of};

    ghost list = { λ t. t.ends.now.items };

    ghost reports = { λ t. route_reports (O.added t.openings.now) (O.requested t.openings.now) };

    ghost answers = { λ t. O.answers t.openings.now };

    ghost facts = { facts_of (λ (o : O). recorded (O.answers o) (route_reports (O.added o) (O.requested o))) O.unchanged O.no_more O.none_to_close };

    ghost room = { λ t. 511 ≤ vec_capacity t.ends.now };

    ghost borrows = { λ t. t.ends.ghost_name ∷ t.openings.ghost_name ∷ [] };

    #[inline(always)]
    fn round<R: Wait, S: Source, W: Wire, G: Signals>(
        &mut self,
        rounds: &mut PollerRounds,
        order: &RoundOrder<R, G>,
        names: &mut Names,
        source: &mut S,
        wire: &mut W,
    ) -> Visits {
        rounds
            .plans
            .take_changes(self.openings, names, self.ends, rounds.next);
        rounds.round(order, names, self.ends.as_mut_slice(), source, wire)
    }
}
