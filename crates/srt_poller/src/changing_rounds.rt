//! The poller's rounds while routes are added and removed: the call.

ghost use Rattle.std.specs.Prelude.{◌≡◌, ◌^◌, ◌≤◌, ◌⊎◌, length};
ghost use Rattle.std.specs.Vec.{vec_capacity};
ghost use Rattle.srt_lobby.specs.Names.{names_of};
ghost use Rattle.srt_poller.specs.Pollers.{sorting};
ghost use Rattle.srt_poller.specs.Devices.{heard, carried};
ghost use Rattle.srt_poller.specs.Pumped.{before, after};
ghost use Rattle.srt_poller.specs.Openings.{route_reports};
ghost use Rattle.srt_poller.specs.Changes.{PumpedChanging, ToldChanging};
ghost use Rattle.srt_poller.specs.Takings.{recorded, facts_of, TookAllIn};

use crate::context::PollerTask;
use crate::devices::Devices;
use crate::ends::Ends;
use crate::openings::Openings;
use crate::pumping::Pumping;
use crate::rounds::PollerRounds;
use crate::signals::Signals;
use crate::tables::ChangingRoutes;
use srt_lobby::Names;
use std::sync::Wait;

/// As `pump_under`, and routes are added and removed between two rounds, as the openings report. The schedules of the task
/// are those of the first routes.
///
/// Each round begins with the changes. An added route gets the next index, and becomes visible in the first round in
/// which no visible route has its name; so does a route whose name is in use in its opening round. A route that is
/// requested to close is closed from the next round on, unless its schedule has an earlier one; if it hasn't opened yet,
/// it never does. Routes are added while there are fewer than 511, and at most 511 are requested to close in one round;
/// others stay with the openings. In a round that closes all, routes are added, and none becomes visible.
///
/// Such a run keeps all promises of one that had all routes in advance, the added ones hidden, with other schedules. These
/// differ for the routes that were requested to close or share their name with another route.
pub fn pump_changing<R: Wait, D: Devices, G: Signals, O: Openings>(
    task: &PollerTask<R, G>,
    names: &mut Names,
    ends: &mut Vec<Ends>,
    source: &mut D::Source,
    wire: &mut D::Wire,
    openings: &mut O,
) -> Pumping
    requires ends { length ends.old.items ≡ length (names_of names.old) }
    requires schedules { length task.now.schedules.now ≡ length (names_of names.old) }
    requires room { 511 ≤ vec_capacity ends.old }
    requires few { task.now.rounds ≤ 2 ^ 48 }
    ensures pumped { PumpedChanging (G.goes task.now.signals.now) (G.closes task.now.signals.now) (sorting task.now.secret.now) task.now.schedules.now
        result.rounds
        (route_reports (O.added openings.old) (O.requested openings.old)) (route_reports (O.added openings.new) (O.requested openings.new))
        (before (names_of names.old) (heard (D.Source.gave source.old) (D.Source.calls source.old))
        (carried (D.Wire.handed wire.old) (D.Wire.attempts wire.old)) ends.old.items)
        (after (names_of names.new) (heard (D.Source.gave source.new) (D.Source.calls source.new)) (carried (D.Wire.handed wire.new) (D.Wire.attempts wire.new))
        ends.new.items result.report) }
    ensures told { ToldChanging (G.goes task.now.signals.now) (G.closes task.now.signals.now) (sorting task.now.secret.now) (G.knows task.now.signals.now)
        task.now.schedules.now result.rounds
        (route_reports (O.added openings.old) (O.requested openings.old)) (route_reports (O.added openings.new) (O.requested openings.new))
        (before (names_of names.old) (heard (D.Source.gave source.old) (D.Source.calls source.old))
        (carried (D.Wire.handed wire.old) (D.Wire.attempts wire.old)) ends.old.items)
        (after (names_of names.new) (heard (D.Source.gave source.new) (D.Source.calls source.new)) (carried (D.Wire.handed wire.new) (D.Wire.attempts wire.new))
        ends.new.items result.report) }
    ensures taken { TookAllIn
        (facts_of (λ (o : O). recorded (O.answers o) (route_reports (O.added o) (O.requested o))) O.unchanged O.no_more O.none_to_close)
        result.rounds (length (names_of names.old)) (length (names_of names.new))
        (recorded (O.answers openings.old) (route_reports (O.added openings.old) (O.requested openings.old)))
        (recorded (O.answers openings.new) (route_reports (O.added openings.new) (O.requested openings.new))) }
    ensures room { 511 ≤ vec_capacity ends.new }
    ensures rounds { result.rounds ≤ task.now.rounds }
    ensures whole { (result.rounds ≡ task.now.rounds) ⊎ G.stops task.now.signals.now }
{
    let mut rounds = PollerRounds::new(task.alloc, names, task.schedules);
    let mut table = ChangingRoutes { ends, openings };
    let made = rounds.make::<_, _, D, _>(task, &mut table, names, source, wire);
    let counts = rounds.poller.report();
    Pumping {
        report: counts,
        rounds: made,
    }
}
