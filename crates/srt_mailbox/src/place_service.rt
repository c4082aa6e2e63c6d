//! Serves the routes of places, and shows them.

ghost use Rattle.std.specs.Prelude.{◌≡◌, ◌≢◌, ◌≤◌, Some, None};
ghost use Rattle.srt_mailbox.specs.Counts.{Grew};
ghost use Rattle.srt_mailbox.specs.Visits.{QueriedOrEmpty, QueriedOnceOrEmpty};
ghost use Rattle.srt_mailbox.specs.declared.gates.Served.TheVariants.{GateRefused, ClaimedElsewhere};

use crate::added_seats::{Place, seat_in};
use crate::cells::{Serve, Unshown};
use crate::gates::{Gate, Served, Visit};
use crate::observer::Observer;
use crate::seats::Attachment;
use srt_types::Turned;
use std::sync::Wait;

impl<X: Attachment + Drop> Serve for Place<X> {
    ghost use Rattle.std.specs.Prelude.{ℕ};
    ghost use Rattle.srt_mailbox.specs.Cells.{CellIdentity};
    ghost use Rattle.srt_mailbox.specs.Looks.{IsRouteWith};

    ghost holds = { λ place route waiting. (n : CellIdentity) × IsRouteWith n route waiting };

    // An empty place has nothing to do: that is an idle turn.
    fn visit<R: Wait, G: Gate>(&self, rt: &R, gate: &mut G, most: u32) -> Visit
        ensures most { result.turns ≤ most }
        ensures moved { result.moved ≤ result.turns }
        ensures all { result.end ≡ None → result.turns ≡ most }
        ensures held { result.end ≡ Some GateRefused → Grew (G.held gate.old) (G.held gate.new) }
        ensures passed { result.end ≢ Some GateRefused → G.held gate.new ≡ G.held gate.old }
        ensures busy { result.end ≡ Some ClaimedElsewhere → (result.turns ≡ 0) × (gate.new ≡ gate.old) }
        ensures requested { QueriedOrEmpty (G.nobody gate.new) result (G.requested gate.old) (G.requested gate.new) }
        ensures elsewhere { result.end ≡ Some ClaimedElsewhere → (r : ℕ) × G.elsewhere gate.new r }
    {
        match seat_in(self) {
            Ok(seat) => seat.cell.visit(rt, gate, most),
            Err(empty) => {
                gate.seats_nobody(empty);
                Visit {
                    turns: 0,
                    moved: 0,
                    end: Some(Served::Turned(Turned::Idle)),
                }
            }
        }
    }

    fn serve<R: Wait, G: Gate>(&self, rt: &R, gate: &mut G) -> Served
        ensures held { result ≡ GateRefused → Grew (G.held gate.old) (G.held gate.new) }
        ensures requested { QueriedOnceOrEmpty (G.nobody gate.new) result (G.requested gate.old) (G.requested gate.new) }
        ensures elsewhere { result ≡ ClaimedElsewhere → (r : ℕ) × G.elsewhere gate.new r }
    {
        match seat_in(self) {
            Ok(seat) => seat.cell.serve(rt, gate),
            Err(empty) => {
                gate.seats_nobody(empty);
                Served::Turned(Turned::Idle)
            }
        }
    }

    // An empty place has no route to show.
    fn show<R: Wait, L: Observer>(&self, rt: &R, look: &mut L) -> Result<(), Unshown> {
        match seat_in(self) {
            Ok(seat) => seat.cell.show(rt, look),
            Err(empty) => Err(Unshown::Empty(empty)),
        }
    }
}
