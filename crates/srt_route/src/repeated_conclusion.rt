//! Step 3 of an event, a repeated conclusion (section 4.3.1.2): a caller with an open session is sent its first answer
//! again, with the same bytes, whatever the conclusion states (our choice).

ghost use Rattle.std.specs.Prelude.{◌≡◌, ◌<◌, ◌^◌, Some, option_map};
ghost use Rattle.srt_types.specs.Given.{given};
ghost use Rattle.srt_route.specs.Tables.{again_of, heard_at, with_stored, written_of};
ghost use Rattle.srt_route.specs.Tallies.{Tallies, conclusion_tally};
ghost use Rattle.srt_route.specs.inside.Calls.{TakesConclusion};

use crate::admission::consider;
use crate::answer_writing::answer_to;
use crate::arrival::Arrival;
use crate::conclusion_reading::Conclusion;
use crate::ledger::Ledger;
use crate::replies::Reply;
use crate::seat::{Seat, slot_of};
use crate::table::Table;
use srt_types::Peer;

impl Seat {
    /// Handles a repeated conclusion: updates the time at which the peer was last heard, and writes the first answer
    /// again into `reply`. Returns false if no session is open here.
    pub fn again(&mut self, clock: u64, peer: Peer, reply: &mut Reply) -> bool
        ensures seat { self.new ≡ with_stored (option_map (heard_at clock) self.old.session) self.old }
        ensures answer { written_of (given result reply.new) ≡ again_of peer self.old.session }
    {
        match &mut self.session {
            Some(session) => {
                session.heard = clock;
                answer_to(reply, peer, session.caller, &session.answer);
                true
            }
            None => false,
        }
    }
}

/// Processes a conclusion. A caller with an open session is sent its first answer again; any other is admitted or
/// refused. Returns true if `reply` has an answer.
pub fn conclude(
    table: &mut Table,
    ledger: &mut Ledger,
    arrival: Arrival,
    c: Conclusion,
    reply: &mut Reply,
) -> bool
    requires { c.initial < 2 ^ 31 }
    ensures taken { TakesConclusion arrival c table.old table.new (written_of (given result reply.new)) }
    ensures ended { (ledger.new.ended ≡ ledger.old.ended) × (ledger.new.totals ≡ ledger.old.totals) }
    ensures tally { Tallies arrival.clock (λ e sessions. conclusion_tally e arrival.peer sessions (Some c)) table.old ledger.old ledger.new }
{
    if let Some(at) = slot_of(&table.seats, arrival.peer, c.caller) {
        return table.seats[at].again(arrival.clock, arrival.peer, reply);
    }
    consider(table, ledger, arrival, c, reply);
    true
}
