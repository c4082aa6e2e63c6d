//! A claimed route: what a call has from the claim until it gives the route back.
//!
//! A claimed route can't be dropped. Only `give_back` ends a `Claimed`, so a call that loses the route doesn't compile.

ghost use Rattle.std.specs.Prelude.{◌≡◌, ◌≢◌, ◌≤◌, Some, None, option_map};
ghost use Rattle.srt_mailbox.specs.Claims.{claimed_run};
ghost use Rattle.srt_mailbox.specs.Counts.{Grew};
ghost use Rattle.srt_mailbox.specs.Cells.{CellIdentity, Bears};
ghost use Rattle.srt_mailbox.specs.Looks.{WasShown};
ghost use Rattle.srt_mailbox.specs.Visits.{queried_in, queried_last, ServedAs, VisitedAs};
ghost use Rattle.srt_mailbox.specs.declared.gates.Served.TheVariants.{GateRefused, ClaimedElsewhere};

use crate::cells::Boxed;
use crate::gates::{Gate, Served, Visit};
use crate::observer::Observer;
use crate::slots::{PutBack, TakenOut, put_back};
use counted_slot::Counted;
use std::marker::Model;
use std::snapshot::Snapshot;
use std::sync::Wait;

/// A route that a call has claimed, in its box. Contracts see it as a `ClaimedRun`: the route as it was when it was
/// claimed, and as it is.
pub(crate) struct Claimed {
    boxed: Boxed,
    // for contracts alone: no bytes at run time
    was: Snapshot<Boxed>,
}

impl Model for Claimed {
    ghost use Rattle.srt_mailbox.specs.Claims.{ClaimedRun, claimed_run};

    ghost Value = { ClaimedRun };

    ghost view = { λ s. claimed_run s.was.value.running.value s.boxed.running.value };
}

/// Evidence that a claimed route was given back. It has no bytes, and can't be copied. Only `Claimed::give_back` makes
/// any. Contracts see the route as it was when it was claimed, and as it was given back.
#[derive(Drop)]
pub(crate) struct GivenBack {
    was: Snapshot<Boxed>,
    put: PutBack<Boxed>,
}

impl Model for GivenBack {
    ghost use Rattle.srt_mailbox.specs.Claims.{ClaimedRun, claimed_run};

    ghost Value = { ClaimedRun };

    ghost view = { λ s. claimed_run s.was.value.running.value s.put.value.value.running.value };
}

impl Claimed {
    /// The claimed route that was taken out of its cell.
    #[inline(always)]
    pub fn new(out: TakenOut<Boxed>) -> Claimed
        ensures { result ≡ claimed_run out.value.running.value out.value.running.value }
    {
        let TakenOut { value: boxed } = out;
        let was = Snapshot::of(&boxed);
        Claimed { boxed, was }
    }

    /// As `Running::serve`.
    #[inline(always)]
    pub fn serve<R: Wait, G: Gate>(&mut self, rt: &R, route: usize, gate: &mut G) -> Served
        ensures was { self.new.was ≡ self.old.was }
        ensures bears { (n : CellIdentity) → Bears n self.old.now → Bears n self.new.now }
        ensures turned { ServedAs result self.old.now self.new.now }
        ensures held { result ≡ GateRefused → Grew (G.held gate.old) (G.held gate.new) }
        ensures requested { G.requested gate.new ≡ option_map (queried_last route result) (G.requested gate.old) }
    {
        self.boxed.running.serve(rt, route, gate)
    }

    /// As `Running::visit`.
    #[inline(always)]
    pub fn visit<R: Wait, G: Gate>(
        &mut self,
        rt: &R,
        route: usize,
        gate: &mut G,
        most: u32,
    ) -> Visit
        ensures was { self.new.was ≡ self.old.was }
        ensures bears { (n : CellIdentity) → Bears n self.old.now → Bears n self.new.now }
        ensures visited { VisitedAs result self.old.now self.new.now }
        ensures most { result.turns ≤ most }
        ensures part { result.moved ≤ result.turns }
        ensures all { result.end ≡ None → result.turns ≡ most }
        ensures held { result.end ≡ Some GateRefused → Grew (G.held gate.old) (G.held gate.new) }
        ensures passed { result.end ≢ Some GateRefused → G.held gate.new ≡ G.held gate.old }
        ensures claimed { result.end ≢ Some ClaimedElsewhere }
        ensures requested { G.requested gate.new ≡ option_map (queried_in route result) (G.requested gate.old) }
    {
        self.boxed.running.visit(rt, route, gate, most)
    }

    /// As `Running::show`.
    #[inline(always)]
    pub fn show<L: Observer>(&self, look: &mut L)
        ensures { WasShown self.now.now (L.noted look.old look.new) }
    {
        self.boxed.running.show(look);
    }

    /// Puts the route back into its cell's slot and frees the claim word.
    #[inline(always)]
    pub fn give_back<R: Wait>(self, rt: &R, slot: &Counted<Option<Boxed>>) -> GivenBack
        requires { Bears slot.now self.now }
        ensures { result ≡ self }
    {
        let Claimed { boxed, was } = self;
        GivenBack {
            was,
            put: put_back(rt, slot, boxed),
        }
    }
}
