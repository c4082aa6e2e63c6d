//! A poller between its rounds, and what happens in a round.

ghost use Rattle.std.specs.Prelude.{◌≡◌, ◌+◌, ◌^◌, ◌%◌, ◌<◌, ◌≤◌, ◌==◌, ◌||◌, ◌⊎◌, None, IfSome, IfNone, true, false, length};
ghost use Rattle.srt_lobby.specs.Names.{names_of};
ghost use Rattle.srt_poller.specs.Pollers.{lobby_setting, round_state, listening, begun_phase};
ghost use Rattle.srt_poller.specs.Devices.{heard, carried};
ghost use Rattle.srt_poller.specs.Reports.{nothing};
ghost use Rattle.srt_poller.specs.Beginnings.{RestBetween};
ghost use Rattle.srt_poller.specs.Plans.{never, AreTimely};
ghost use Rattle.srt_poller.specs.Changes.{plans_in, RoundWent, RoundsChanging};
ghost use Rattle.srt_poller.specs.Takings.{recorded, TookAllIn};
ghost use Rattle.srt_poller.specs.inside.Visits.{IsNoted};
ghost use Rattle.srt_poller.specs.inside.Served.{IsServed};

use crate::changing::Plans;
use crate::context::{Classifier, PollerTask, RoundContext, RoundOrder};
use crate::devices::{Devices, Source, Wire};
use crate::ends::Ends;
use crate::poller::Poller;
use crate::signals::{Orders, Signals};
use crate::tables::RouteTable;
use crate::visits::Visits;
use srt_lobby::Names;
use srt_supervision::Order;
use srt_types::Schedule;
use std::alloc::Global;
use std::sync::Wait;

/// A poller between two rounds.
#[derive(Drop)]
pub(crate) struct PollerRounds {
    /// Its buffers, the kept reply and the counts.
    pub(crate) poller: Poller,
    /// When the routes open and close.
    pub(crate) plans: Plans,
    /// The number of the next round.
    pub(crate) next: u64,
}

// Whether the next round closes all. `None` if the order is to end.
#[inline(always)]
fn ask<G: Orders>(signals: &G) -> Option<bool>
    ensures round { IfSome result (λ closes_all. (closes_all ≡ false → G.goes signals.now) × (closes_all ≡ true → G.closes signals.now)) }
    ensures end { IfNone result (G.stops signals.now) }
{
    match signals.order() {
        Order::GoOn => Some(false),
        Order::CloseAll => Some(true),
        Order::End => None,
    }
}

impl PollerRounds {
    /// Before the first round, for routes with these names and schedules. Doesn't allocate.
    pub(crate) fn new(alloc: Global, names: &Names, schedules: &[Schedule]) -> PollerRounds
        requires { length schedules.now ≡ length (names_of names.now) }
        ensures kept { result.poller.kept ≡ None }
        ensures report { result.poller.report ≡ nothing }
        ensures plans { plans_in result.plans ≡ schedules.now }
        ensures timely { AreTimely schedules.now }
        ensures due { result.plans.due ≡ 0 }
        ensures latest { result.plans.latest.moment ≡ 0 }
        ensures next { result.next ≡ 0 }
    {
        PollerRounds {
            poller: Poller::new(alloc),
            plans: Plans::new(names, schedules),
            next: 0,
        }
    }

    /// Makes a round: begins it, sends the kept reply again, waits and reads, lets the polling thread serve routes, and
    /// sends replies. Its changes have been taken. Returns the routes whose outboxes were drained or passed over.
    #[inline(always)]
    pub(crate) fn round<R: Wait, S: Source, W: Wire, G: Signals>(
        &mut self,
        order: &RoundOrder<R, G>,
        names: &mut Names,
        ends: &mut [Ends],
        source: &mut S,
        wire: &mut W,
    ) -> Visits
        requires known { length (plans_in self.old.plans) ≡ length (names_of names.old) }
        requires ends { length ends.old ≡ length (names_of names.old) }
        requires rest { RestBetween self.old.next self.old.plans.due (plans_in self.old.plans) (names_of names.old) }
        requires fits { self.old.next < never }
        ensures went { RoundWent (lobby_setting order.now.task.now.secret.now (G.knows order.now.task.now.signals.now)) order.now.closes_all
            self.old.next self.old.plans.due (plans_in self.old.plans) (plans_in self.new.plans) (names_of names.old) (names_of names.new)
            ends.old (begun_phase self.old.poller)
            (λ es. listening (heard (S.gave source.old) (S.calls source.old)) (carried (W.handed wire.old) (W.attempts wire.old)) es self.old.poller)
            (listening (heard (S.gave source.new) (S.calls source.new)) (carried (W.handed wire.new) (W.attempts wire.new)) ends.new self.new.poller)
            self.old.plans.latest.moment self.new.plans.latest.moment }
        ensures rest { RestBetween self.new.next self.new.plans.due (plans_in self.new.plans) (names_of names.new) }
        ensures next { self.new.next ≡ self.old.next + 1 }
        ensures ends { length ends.new ≡ length (names_of names.new) }
        ensures visited { self.new.poller.kept ≡ None → length ends.new ≤ result.next }
        ensures checked { result.all ≡ (self.old.poller.left || (self.old.next % 64 == 0)) }
        ensures left { IsNoted (length ends.new) self.old.poller.left self.new.poller.kept result self.new.poller.left }
        ensures served { IsServed (G.served order.now.task.now.signals.now) (G.knows order.now.task.now.signals.now).fault
            self.old.poller.report.read self.new.poller.report.read }
    {
        let task = order.task;
        let round = self.next;
        self.plans.begin(task, names, ends, round, order.closes_all);
        let context = RoundContext {
            rt: task.rt,
            alloc: task.alloc,
            lobby: Classifier {
                secret: task.secret,
                names,
            },
            signals: task.signals,
            round,
        };
        self.next = round + 1;
        self.poller
            .make_round(&context, source, wire, ends, &mut self.plans.latest)
    }

    /// Makes at most the rounds of the task, and returns how many were made.
    #[inline(always)]
    pub(crate) fn make<E: RouteTable, R: Wait, D: Devices, G: Signals>(
        &mut self,
        task: &PollerTask<R, G>,
        table: &mut E,
        names: &mut Names,
        source: &mut D::Source,
        wire: &mut D::Wire,
    ) -> u64
        requires ends { length (E.list table.old) ≡ length (names_of names.old) }
        requires plans { length (plans_in self.old.plans) ≡ length (names_of names.old) }
        requires timely { AreTimely (plans_in self.old.plans) }
        requires room { E.room table.old }
        requires rest { RestBetween self.old.next self.old.plans.due (plans_in self.old.plans) (names_of names.old) }
        requires fits { self.old.next + task.now.rounds < 2 ^ 64 }
        ensures made { RoundsChanging (G.goes task.now.signals.now) (G.closes task.now.signals.now)
            (lobby_setting task.now.secret.now (G.knows task.now.signals.now)) self.old.next result
            (plans_in self.old.plans) (E.reports table.old) (E.reports table.new) (names_of names.old) (E.list table.old)
            (λ ns es. listening (heard (D.Source.gave source.old) (D.Source.calls source.old))
            (carried (D.Wire.handed wire.old) (D.Wire.attempts wire.old)) es self.old.poller
            (round_state ns self.old.next self.old.plans.latest.moment))
            (listening (heard (D.Source.gave source.new) (D.Source.calls source.new)) (carried (D.Wire.handed wire.new) (D.Wire.attempts wire.new))
            (E.list table.new) self.new.poller (round_state (names_of names.new) (self.old.next + result) self.new.plans.latest.moment)) }
        ensures taken { TookAllIn E.facts result (length (names_of names.old)) (length (names_of names.new))
            (recorded (E.answers table.old) (E.reports table.old)) (recorded (E.answers table.new) (E.reports table.new)) }
        ensures room { E.room table.new }
        ensures same { E.borrows table.new ≡ E.borrows table.old }
        ensures rounds { result ≤ task.now.rounds }
        ensures whole { (result ≡ task.now.rounds) ⊎ G.stops task.now.signals.now }
    {
        for made in 0..task.rounds {
            self.poller.report_counts(task.signals);
            let Some(closes_all) = ask(task.signals) else {
                return made;
            };
            let order = RoundOrder { task, closes_all };
            let _ = table.round(self, &order, names, source, wire);
        }
        task.rounds
    }
}
