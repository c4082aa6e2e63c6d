//! The poller's rounds.

ghost use Rattle.std.specs.Prelude.{◌≡◌, ◌^◌, ◌≤◌, ◌⊎◌, length};
ghost use Rattle.srt_lobby.specs.Names.{names_of};
ghost use Rattle.srt_poller.specs.Schedules.{AllDiffer};
ghost use Rattle.srt_poller.specs.Pollers.{sorting};
ghost use Rattle.srt_poller.specs.Devices.{heard, carried};
ghost use Rattle.srt_poller.specs.Pumped.{Pumped, PumpedUnder, ToldUnder, before, after};

use crate::context::PollerTask;
use crate::devices::{DevicesOf, Source, Wire};
use crate::ends::Ends;
use crate::rounds::PollerRounds;
use crate::signals::{Signals, Unsignalled};
use crate::tables::FixedRoutes;
use srt_cookie::Secret;
use srt_lobby::Names;
use srt_supervision::Report;
use srt_types::Schedule;
use std::alloc::Global;
use std::sync::Wait;

/// The outcome of a poller's rounds.
#[derive(Clone, Copy, Debug, PartialEq, Eq)]
pub struct Pumping {
    /// The counts.
    pub report: Report,
    /// The number of rounds that were made.
    pub rounds: u64,
}

/// Makes `rounds` rounds and returns the counts. `schedules` and `ends` are those of the routes of `names`, in the order
/// of their indexes, hidden routes included.
///
/// A round, the first of which has number 0, begins with the routes that open in it: they become visible. Then `Close` is
/// offered to each visible route whose closing round is this one or an earlier one, with the greatest timestamp of the
/// source (0 for none). A route whose inbox accepts it is hidden; one whose inbox is full is offered it again in the next
/// round. The report doesn't count this.
///
/// Then the kept reply is sent again, if there is one. Then the source waits, and at most 256 datagrams are
/// read; each is answered by the lobby, offered to its route or dropped. Then at most 64 replies of each route are
/// sent.
///
/// A reply for which the send returns Later is kept, and no other reply is taken until it is sent. An answer of the lobby
/// is lost in that case. A datagram whose send fails is lost. After a failed wait the round reads nothing; a failed
/// read ends the reads of its round. Only the copy of a datagram that is offered allocates, if no body was
/// returned with a reply; if the allocation fails, the datagram is lost.
pub fn pump<R: Wait, S: Source, W: Wire>(
    rt: &R,
    alloc: Global,
    secret: &Secret,
    names: &mut Names,
    schedules: &[Schedule],
    source: &mut S,
    wire: &mut W,
    ends: &mut [Ends],
    rounds: u32,
) -> Report
    requires ends { length ends.old ≡ length (names_of names.old) }
    requires schedules { length schedules.now ≡ length (names_of names.old) }
    requires differ { AllDiffer (names_of names.old) }
    ensures { Pumped (sorting secret.now) schedules.now rounds
        (before (names_of names.old) (heard (S.gave source.old) (S.calls source.old)) (carried (W.handed wire.old) (W.attempts wire.old)) ends.old)
        (after (names_of names.new) (heard (S.gave source.new) (S.calls source.new)) (carried (W.handed wire.new) (W.attempts wire.new)) ends.new result) }
{
    let signals = Unsignalled;
    let task = PollerTask {
        rt,
        alloc,
        secret,
        schedules,
        rounds: rounds as u64,
        signals: &signals,
    };
    let pumping = pump_under(&task, names, ends, source, wire);
    pumping.report
}

/// As `pump`, with an order before each round: to make it, to close all in it, or to end (`Order`). A round that closes all
/// makes no route visible, and offers `Close` to each visible one. Outboxes without a hint are skipped, except in every
/// 64th round, the first among them, and in the round after one that left an outbox before it was found empty.
pub fn pump_under<R: Wait, S: Source, W: Wire, G: Signals>(
    task: &PollerTask<R, G>,
    names: &mut Names,
    ends: &mut [Ends],
    source: &mut S,
    wire: &mut W,
) -> Pumping
    requires ends { length ends.old ≡ length (names_of names.old) }
    requires schedules { length task.now.schedules.now ≡ length (names_of names.old) }
    requires differ { AllDiffer (names_of names.old) }
    requires few { task.now.rounds ≤ 2 ^ 48 }
    ensures pumped { PumpedUnder (G.goes task.now.signals.now) (G.closes task.now.signals.now) (sorting task.now.secret.now) task.now.schedules.now
        result.rounds
        (before (names_of names.old) (heard (S.gave source.old) (S.calls source.old)) (carried (W.handed wire.old) (W.attempts wire.old)) ends.old)
        (after (names_of names.new) (heard (S.gave source.new) (S.calls source.new)) (carried (W.handed wire.new) (W.attempts wire.new))
        ends.new result.report) }
    ensures told { ToldUnder (G.goes task.now.signals.now) (G.closes task.now.signals.now) (sorting task.now.secret.now) (G.knows task.now.signals.now)
        task.now.schedules.now result.rounds
        (before (names_of names.old) (heard (S.gave source.old) (S.calls source.old)) (carried (W.handed wire.old) (W.attempts wire.old)) ends.old)
        (after (names_of names.new) (heard (S.gave source.new) (S.calls source.new)) (carried (W.handed wire.new) (W.attempts wire.new))
        ends.new result.report) }
    ensures rounds { result.rounds ≤ task.now.rounds }
    ensures whole { (result.rounds ≡ task.now.rounds) ⊎ G.stops task.now.signals.now }
{
    let mut rounds = PollerRounds::new(task.alloc, names, task.schedules);
    let mut table = FixedRoutes { ends };
    let made = rounds.make::<_, _, DevicesOf<S, W>, _>(task, &mut table, names, source, wire);
    let counts = rounds.poller.report();
    Pumping {
        report: counts,
        rounds: made,
    }
}
