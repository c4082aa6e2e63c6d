//! The plans of all routes: which of them open and close at the beginning of a round, and the changes before it.

ghost use Rattle.std.specs.Prelude.{◌≡◌, ◌⊎◌, ◌<◌, ◌≤◌, ◌+◌, ◌∷◌, [], ◌++◌, length};
ghost use Rattle.std.specs.Vec.{vec_capacity};
ghost use Rattle.srt_lobby.specs.Names.{names_of, new_name};

use crate::context::PollerTask;
use crate::ends::Ends;
use crate::latest::Latest;
use crate::openings::{AddedRoute, Openings};
use crate::plans::{NEVER, Plan, close_one, next_due};
use crate::signals::Hints;
use arrayvec::ArrayVec;
use srt_lobby::Names;
use srt_types::Schedule;
use srt_types::product_limits::MAX_ROUTES;
use std::sync::Wait;

/// When the routes of a run open and close, also those that are added. They stand in the value itself.
#[derive(Drop)]
pub(crate) struct Plans {
    // one for each route, in the order of their indexes
    plans: ArrayVec<Plan, MAX_ROUTES>,
    // the first round in which a route may open or close
    due: u64,
    /// The latest arrival so far; a Close gets its timestamp.
    pub(crate) latest: Latest,
}

impl Plans {
    ghost use Rattle.std.specs.Prelude.{Some, slice_get, slice_set};
    ghost use Rattle.srt_poller.specs.Beginnings.{RestBetween, AreClosed};
    ghost use Rattle.srt_poller.specs.Openings.{route_reports};
    ghost use Rattle.srt_poller.specs.Plans.{never, waiting, AreTimely};
    ghost use Rattle.srt_poller.specs.Changes.{plans_in, TookAddedRoutes, TookClosings, TookMany, TookChanges, Opens, Started};
    ghost use Rattle.srt_poller.specs.Takings.{recorded, facts_of, TookAll};

    /// Returns the plans of routes with these names and schedules, before the first round.
    pub(crate) fn new(names: &Names, schedules: &[Schedule]) -> Plans
        requires { length schedules.now ≡ length (names_of names.now) }
        ensures plans { plans_in result ≡ schedules.now }
        ensures timely { AreTimely schedules.now }
        ensures due { result.due ≡ 0 }
        ensures latest { result.latest.moment ≡ 0 }
    {
        let mut plans = ArrayVec::new();
        for route in 0..names.len() {
            plans.push(Plan::of(schedules[route]));
        }
        Plans {
            plans,
            due: 0,
            latest: Latest { moment: 0 },
        }
    }

    // Returns the plan of a route.
    fn plan(&self, route: usize) -> Plan
        requires { route < length (plans_in self.now) }
        ensures { slice_get self.now.plans.items route ≡ Some result }
    {
        self.plans[route]
    }

    // Changes the plan of a route.
    fn set(&mut self, route: usize, plan: Plan)
        requires { route < length (plans_in self.old) }
        ensures plans { self.new.plans.items ≡ slice_set self.old.plans.items route plan }
        ensures latest { self.new.latest ≡ self.old.latest }
    {
        self.plans[route] = plan;
    }

    // Appends a route, which waits until no visible route has its name. Doesn't allocate.
    fn append(&mut self, names: &mut Names, ends: &mut Vec<Ends>, newcomer: AddedRoute)
        requires known { length (plans_in self.old) ≡ length (names_of names.old) }
        requires ends { length ends.old.items ≡ length (names_of names.old) }
        requires few { length (names_of names.old) < 511 }
        requires room { 511 ≤ vec_capacity ends.old }
        ensures plans { plans_in self.new ≡ plans_in self.old ++ waiting ∷ [] }
        ensures names { names_of names.new ≡ names_of names.old ++ new_name newcomer.name ∷ [] }
        ensures ends { ends.new.items ≡ ends.old.items ++ newcomer.ends ∷ [] }
        ensures room { 511 ≤ vec_capacity ends.new }
        ensures latest { self.new.latest ≡ self.old.latest }
    {
        let AddedRoute {
            name,
            ends: newcomers,
        } = newcomer;
        names.append(name);
        ends.push(newcomers).unwrap();
        let plan = Plan {
            open_round: NEVER,
            close_round: None,
        };
        self.plans.push(plan);
    }

    // Appends all routes that are added, as long as there are fewer than 511. Doesn't allocate.
    fn take_newcomers<O: Openings>(
        &mut self,
        openings: &mut O,
        names: &mut Names,
        ends: &mut Vec<Ends>,
    )
        requires known { length (plans_in self.old) ≡ length (names_of names.old) }
        requires ends { length ends.old.items ≡ length (names_of names.old) }
        requires room { 511 ≤ vec_capacity ends.old }
        ensures added { TookAddedRoutes (O.added openings.old) (O.added openings.new) (plans_in self.old) (plans_in self.new)
            (names_of names.old) (names_of names.new) ends.old.items ends.new.items }
        ensures requested { O.requested openings.new ≡ O.requested openings.old }
        ensures answered { O.answers openings.new ≡ O.answers openings.old }
        ensures all { O.no_more openings.new ⊎ (511 ≤ length (names_of names.new)) }
        ensures room { 511 ≤ vec_capacity ends.new }
        ensures latest { self.new.latest ≡ self.old.latest }
    {
        for _ in names.len()..MAX_ROUTES {
            let Some(newcomer) = openings.next() else {
                return;
            };
            self.append(names, ends, newcomer);
        }
    }

    // Closes the routes that are requested to close, at most 511, from this round on, which hasn't begun. One that hasn't
    // opened yet never does.
    fn take_closings<O: Openings>(&mut self, openings: &mut O, round: u64)
        ensures requested { TookClosings round (O.requested openings.old) (O.requested openings.new) (plans_in self.old) (plans_in self.new) }
        ensures added { O.added openings.new ≡ O.added openings.old }
        ensures answered { O.answers openings.new ≡ O.answers openings.old }
        ensures no_more { O.no_more openings.old → O.no_more openings.new }
        ensures all { O.none_to_close openings.new (length (plans_in self.old)) ⊎ TookMany (O.requested openings.old) (O.requested openings.new) }
        ensures latest { self.new.latest ≡ self.old.latest }
    {
        for _ in 0..MAX_ROUTES {
            let Some(route) = openings.next_close(self.plans.len()) else {
                return;
            };
            let plan = self.plan(route).closed_from(round);
            self.set(route, plan);
        }
    }

    /// Takes all changes before a round begins: routes that are added, and those that are to close. Costs a call of
    /// `has_changes` if there are none.
    #[inline(always)]
    pub(crate) fn take_changes<O: Openings>(
        &mut self,
        openings: &mut O,
        names: &mut Names,
        ends: &mut Vec<Ends>,
        round: u64,
    )
        requires known { length (plans_in self.old) ≡ length (names_of names.old) }
        requires ends { length ends.old.items ≡ length (names_of names.old) }
        requires room { 511 ≤ vec_capacity ends.old }
        requires rest { RestBetween round self.old.due (plans_in self.old) (names_of names.old) }
        ensures took { TookChanges round (route_reports (O.added openings.old) (O.requested openings.old))
            (route_reports (O.added openings.new) (O.requested openings.new))
            (plans_in self.old) (plans_in self.new) (names_of names.old) (names_of names.new) ends.old.items ends.new.items }
        ensures taken { TookAll
            (facts_of (λ (o : O). recorded (O.answers o) (route_reports (O.added o) (O.requested o))) O.unchanged O.no_more O.none_to_close)
            (length (names_of names.old)) (length (names_of names.new))
            (recorded (O.answers openings.old) (route_reports (O.added openings.old) (O.requested openings.old)))
            (recorded (O.answers openings.new) (route_reports (O.added openings.new) (O.requested openings.new))) }
        ensures rest { RestBetween round self.new.due (plans_in self.new) (names_of names.new) }
        ensures room { 511 ≤ vec_capacity ends.new }
        ensures latest { self.new.latest ≡ self.old.latest }
    {
        if !openings.has_changes() {
            return;
        }
        self.take_newcomers(openings, names, ends);
        self.take_closings(openings, round);
        self.due = round;
    }

    // Makes the routes visible that open in this round, and those that wait, in the order of their indexes. One whose
    // name another visible route has waits.
    fn open(&mut self, names: &mut Names, round: u64)
        requires known { length (plans_in self.old) ≡ length (names_of names.old) }
        requires fits { round < never }
        ensures opens { Opens round (plans_in self.old) (plans_in self.new) (names_of names.old) (names_of names.new) }
        ensures latest { self.new.latest ≡ self.old.latest }
    {
        for route in 0..self.plans.len() {
            let mut plan = self.plan(route);
            if plan.may_open(round) {
                if names.is_unused(route) {
                    names.show(route);
                    plan.open_round = round;
                    self.set(route, plan);
                } else {
                    plan.open_round = NEVER;
                    self.set(route, plan);
                }
            }
        }
    }

    // Offers Close to each visible route that is due, or to each visible one, in the order of their indexes, and notes the next
    // round in which a route may open or close.
    fn close<R: Wait, G: Hints>(
        &mut self,
        task: &PollerTask<R, G>,
        names: &mut Names,
        ends: &mut [Ends],
        round: u64,
        closes_all: bool,
    )
        requires known { length (plans_in self.old) ≡ length (names_of names.old) }
        requires ends { length ends.old ≡ length (names_of names.old) }
        ensures closed { AreClosed closes_all self.old.latest.moment round (plans_in self.old) (names_of names.old) (names_of names.new)
            ends.old ends.new }
        ensures rest { RestBetween (round + 1) self.new.due (plans_in self.new) (names_of names.new) }
        ensures plans { plans_in self.new ≡ plans_in self.old }
        ensures latest { self.new.latest ≡ self.old.latest }
    {
        let plans = self.plans.as_slice();
        let mut route = 0;
        for plan in plans {
            if plan.is_over(round, closes_all) && names.shows(route) {
                let _ = close_one(task, self.latest, names, ends, route);
            }
            route += 1;
        }
        self.due = next_due(plans, names, round);
    }

    /// Begins a round, after its changes: makes the routes visible that open in it, and then offers Close to each visible
    /// route that is due, in the order of their indexes. A route becomes visible only while no other visible route has
    /// its name; an added one, or one in its opening round, waits until then. A route whose inbox accepts Close is hidden;
    /// one whose inbox is full is offered it again in the next round. If the round closes all, none opens, and each
    /// visible route is closed so. Costs two comparisons in a round with nothing to do, otherwise some for each route, and
    /// so in each round in which one waits.
    #[inline(always)]
    pub(crate) fn begin<R: Wait, G: Hints>(
        &mut self,
        task: &PollerTask<R, G>,
        names: &mut Names,
        ends: &mut [Ends],
        round: u64,
        closes_all: bool,
    )
        requires known { length (plans_in self.old) ≡ length (names_of names.old) }
        requires ends { length ends.old ≡ length (names_of names.old) }
        requires rest { RestBetween round self.old.due (plans_in self.old) (names_of names.old) }
        requires fits { round < never }
        ensures started { Started closes_all round self.old.due self.old.latest.moment (plans_in self.old) (plans_in self.new)
            (names_of names.old) (names_of names.new) ends.old ends.new }
        ensures rest { RestBetween (round + 1) self.new.due (plans_in self.new) (names_of names.new) }
        ensures latest { self.new.latest ≡ self.old.latest }
    {
        if closes_all {
            self.close(task, names, ends, round, true);
            return;
        }
        if round < self.due {
            return;
        }
        self.open(names, round);
        self.close(task, names, ends, round, false);
    }
}
