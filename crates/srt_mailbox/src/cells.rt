//! The cell in which workers find a route: the route and a claim word. A worker that finds the route claimed doesn't
//! wait for it.

ghost use Rattle.std.specs.Prelude.{◌≡◌, ◌≢◌, ◌≤◌, ℕ, true, Some, None, IfOk, IfErr, OnOk, option_map};
ghost use Rattle.srt_types.specs.Terms.{terms_of};
ghost use Rattle.srt_mailbox.specs.Counts.{Grew};
ghost use Rattle.srt_mailbox.specs.Cells.{CellIdentity, Bears};
ghost use Rattle.srt_mailbox.specs.Looks.{WasShown};
ghost use Rattle.srt_mailbox.specs.Taken.{is_for_good};
ghost use Rattle.srt_mailbox.specs.declared.gates.Served.TheVariants.{GateRefused, ClaimedElsewhere};

use crate::added_seats::EmptyPlace;
use crate::gates::{Gate, Served, Visit};
use crate::inbox_rule::Inbox;
use crate::observer::Observer;
use crate::outbox_rule::Outbox;
use crate::running::Running;
use crate::slots::claims::{Claimed, GivenBack};
use crate::slots::taken_route::TakenRoute;
use crate::slots::{TakenElsewhere, take_out};
use counted_slot::{Counted, Fits};
use srt_types::Entry;
use std::marker::Model;
use std::snapshot::Snapshot;
use std::sync::{Arc, Wait};

/// The identity of a cell's route and of its two queues. It is fixed when the cell is made, and is the tag of the
/// cell's slot: every claim yields that route between those queues, whichever thread put it there. Contracts see it as
/// a `CellIdentity`.
#[derive(Drop)]
pub struct CellTag {
    pub(crate) inbox: Arc<Inbox>,
    pub(crate) outbox: Arc<Outbox>,
    pub(crate) entry: Snapshot<Entry>,
    pub(crate) index: Snapshot<usize>,
}

impl Model for CellTag {
    ghost use Rattle.std.specs.Arc.{arc_value};
    ghost use Rattle.srt_types.specs.Terms.{terms_of};
    ghost use Rattle.srt_mailbox.specs.Cells.{CellIdentity, identity_of};

    ghost Value = { CellIdentity };

    ghost view = { λ s. identity_of (terms_of s.entry.value) s.index.value
        (arc_value s.inbox).table.shared.table_id (arc_value s.outbox).table.shared.table_id };
}

/// A route in its box. A claim moves the box out and back; the route itself is never copied.
#[derive(Drop)]
pub struct Boxed {
    pub(crate) running: Box<Running>,
}

impl Fits for Boxed {
    ghost use Rattle.srt_mailbox.specs.Cells.{Bears};

    type Tag = CellTag;

    ghost fits = { λ label boxed. Bears label boxed.running.value };
}

/// A route that workers share. At most one call has the route at a time; the slot is empty meanwhile.
#[derive(Drop)]
pub struct RouteCell {
    index: usize,
    slot: Counted<Option<Boxed>>,
    ghost named: { index ≡ slot.index },
    // 64 bytes of padding, so that the claim words of two adjacent cells share no cache line
    _apart: [u64; 8],
}

impl RouteCell {
    ghost use Rattle.srt_mailbox.specs.Identities.{identity_in};
    ghost use Rattle.srt_mailbox.specs.Visits.{queried_in, queried_last, ServedAs, VisitedAs};

    /// Makes a cell that holds this route, with a free claim word. `index` is the route's; gates are queried for it.
    pub(crate) fn new(index: usize, boxed: Boxed, label: &CellTag) -> RouteCell
        requires bears { Bears label.now boxed.running.value }
        requires index { index ≡ label.now.index }
        ensures { identity_in result ≡ label.now }
    {
        RouteCell {
            index,
            slot: Counted::new(Some(boxed), label),
            _apart: [0; 8],
        }
    }

    // Claims the route. The error is evidence that another call has it. One compare-exchange; never waits.
    #[inline(always)]
    fn claim(&self) -> Result<Claimed, TakenElsewhere>
        ensures { IfOk result (λ c. Bears (identity_in self.now) c.was × (c.now ≡ c.was)) }
    {
        match take_out(&self.slot, false) {
            Ok(out) => Ok(Claimed::new(out)),
            Err(elsewhere) => Err(elsewhere),
        }
    }

    /// Returns the route's index.
    pub(crate) fn index(&self) -> usize
        ensures { result ≡ (identity_in self.now).index }
    {
        self.index
    }

    /// Takes the route out for good: to every later call the route is claimed elsewhere. It has to be settled. The error is
    /// evidence that another call has it. Never waits.
    pub(crate) fn take(&self) -> Result<TakenRoute, TakenElsewhere>
        ensures route { IfOk result (λ route. Bears (identity_in self.now) route) }
        ensures taken { IfErr result (λ e. is_for_good e ≡ true) }
    {
        match take_out(&self.slot, true) {
            Ok(out) => Ok(TakenRoute::new(out)),
            Err(elsewhere) => Err(elsewhere),
        }
    }

    /// Consumes the cell and returns its route, which has to be settled. If another call has the route, the cell is returned
    /// unchanged, with evidence of that. Never waits.
    pub fn into_route(self) -> Result<TakenRoute, (RouteCell, TakenElsewhere)>
        ensures route { IfOk result (λ route. Bears (identity_in self) route) }
        ensures busy { IfErr result (λ back. back.0 ≡ self) }
        ensures taken { IfErr result (λ back. is_for_good back.1 ≡ true) }
    {
        match self.take() {
            Ok(route) => Ok(route),
            Err(elsewhere) => Err((self, elsewhere)),
        }
    }

    // Claims the route, makes one turn if the gate lets it pass, and gives the route back. The error is evidence that
    // another call has it.
    #[inline(always)]
    fn serve_claimed<R: Wait, G: Gate>(
        &self,
        rt: &R,
        gate: &mut G,
    ) -> Result<(Served, GivenBack), TakenElsewhere>
        ensures made { IfOk result (λ r. Bears (identity_in self.now) r.1.was × ServedAs r.0 r.1.was r.1.now) }
        ensures held { IfOk result (λ r. r.0 ≡ GateRefused → Grew (G.held gate.old) (G.held gate.new)) }
        ensures requested { IfOk result (λ r. G.requested gate.new ≡ option_map (queried_last (identity_in self.now).index r.0) (G.requested gate.old)) }
        ensures busy { IfErr result (λ _. gate.new ≡ gate.old) }
    {
        let mut claimed = self.claim()?;
        let served = claimed.serve(rt, self.index, gate);
        let back = claimed.give_back(rt, &self.slot);
        Ok((served, back))
    }

    // Claims the route, visits it, and gives it back. The error is evidence that another call has it.
    #[inline(always)]
    fn visit_claimed<R: Wait, G: Gate>(
        &self,
        rt: &R,
        gate: &mut G,
        most: u32,
    ) -> Result<(Visit, GivenBack), TakenElsewhere>
        ensures made { IfOk result (λ r. Bears (identity_in self.now) r.1.was × VisitedAs r.0 r.1.was r.1.now) }
        ensures most { IfOk result (λ r. r.0.turns ≤ most) }
        ensures moved { IfOk result (λ r. r.0.moved ≤ r.0.turns) }
        ensures all { IfOk result (λ r. r.0.end ≡ None → r.0.turns ≡ most) }
        ensures held { IfOk result (λ r. r.0.end ≡ Some GateRefused → Grew (G.held gate.old) (G.held gate.new)) }
        ensures passed { IfOk result (λ r. r.0.end ≢ Some GateRefused → G.held gate.new ≡ G.held gate.old) }
        ensures claimed { IfOk result (λ r. r.0.end ≢ Some ClaimedElsewhere) }
        ensures requested { IfOk result (λ r. G.requested gate.new ≡ option_map (queried_in (identity_in self.now).index r.0) (G.requested gate.old)) }
        ensures busy { IfErr result (λ _. gate.new ≡ gate.old) }
    {
        let mut claimed = self.claim()?;
        let visit = claimed.visit(rt, self.index, gate, most);
        let back = claimed.give_back(rt, &self.slot);
        Ok((visit, back))
    }

    // Claims the route, shows it, and gives it back as it was. The error is evidence that another call has it.
    #[inline(always)]
    fn show_claimed<R: Wait, L: Observer>(
        &self,
        rt: &R,
        look: &mut L,
    ) -> Result<GivenBack, TakenElsewhere>
        ensures shown { IfOk result (λ b. Bears (identity_in self.now) b.was × WasShown b.was (L.noted look.old look.new)) }
        ensures same { IfOk result (λ b. b.now ≡ b.was) }
        ensures busy { IfErr result (λ _. look.new ≡ look.old) }
    {
        let claimed = self.claim()?;
        claimed.show(look);
        let back = claimed.give_back(rt, &self.slot);
        Ok(back)
    }

    /// Makes one step of the route, if no other call has it and the gate permits it. `GateRefused`: the gate refused.
    /// `ClaimedElsewhere`: another call had the route, and the gate wasn't queried. In both cases no step is made. The
    /// route is returned to the cell in every case. Doesn't allocate and doesn't wait for the route.
    pub fn serve<R: Wait, G: Gate>(&self, rt: &R, gate: &mut G) -> Served
        ensures held { result ≡ GateRefused → Grew (G.held gate.old) (G.held gate.new) }
        ensures requested { G.requested gate.new ≡ option_map (queried_last (identity_in self.now).index result) (G.requested gate.old) }
        ensures elsewhere { result ≡ ClaimedElsewhere → G.elsewhere gate.new (identity_in self.now).index }
    {
        match self.serve_claimed(rt, gate) {
            Ok((served, _)) => served,
            Err(taken) => {
                gate.is_elsewhere(self.index, taken);
                Served::ClaimedElsewhere
            }
        }
    }
}

/// Evidence that no route was shown.
#[derive(Drop)]
pub enum Unshown {
    /// Another call has the route.
    Claimed(TakenElsewhere),
    /// There is no route.
    Empty(EmptyPlace),
}

/// A route that can be served, as `RouteCell` is by workers. Code that passes cells to threads is generic over this
/// trait, so that it can require `Sync` by a bound.
pub trait Serve {
    ghost use Rattle.std.specs.Prelude.{ℕ};
    ghost use Rattle.srt_route.specs.declared.route.Route.{Route as TheRoute};

    /// What is known of a route that it shows, with the number of waiting replies. This and the next one may be nothing, but
    /// only by `show` can code that is generic over this trait show them.
    ghost holds: { Self → TheRoute → (waiting : ℕ) → Type 0 } = { λ _ _ _. Unit {0} };

    /// What is known once it showed no route.
    ghost shows_none: { Self → Type 0 } = { λ _. Unit {0} };

    /// Makes a batch of at most `most` steps of the route, if no other call has it, until a step finds no work or a full
    /// outbox, or the gate refuses one.
    fn visit<R: Wait, G: Gate>(&self, rt: &R, gate: &mut G, most: u32) -> Visit
        ensures most { result.turns ≤ most }
        ensures moved { result.moved ≤ result.turns }
        ensures all { result.end ≡ None → result.turns ≡ most }
        ensures held { result.end ≡ Some GateRefused → Grew (G.held gate.old) (G.held gate.new) }
        ensures passed { result.end ≢ Some GateRefused → G.held gate.new ≡ G.held gate.old }
        ensures busy { result.end ≡ Some ClaimedElsewhere → (result.turns ≡ 0) × (gate.new ≡ gate.old) };

    /// Makes one step of the route, as `RouteCell::serve` does.
    fn serve<R: Wait, G: Gate>(&self, rt: &R, gate: &mut G) -> Served
        ensures held { result ≡ GateRefused → Grew (G.held gate.old) (G.held gate.new) };

    /// Shows the route once to `look`. The error is evidence that another call has it, or that there is none; then nothing
    /// was shown. Makes no step: the route is given back unchanged. Doesn't allocate and doesn't wait for the route.
    fn show<R: Wait, L: Observer>(&self, rt: &R, look: &mut L) -> Result<(), Unshown>
        ensures shown { OnOk result ((route : TheRoute) × (waiting : ℕ) × holds self.now route waiting × L.noted look.old look.new route waiting) }
        ensures none { IfErr result (λ _. shows_none self.now) }
        ensures same { IfErr result (λ _. look.new ≡ look.old) };
}

impl Serve for RouteCell {
    ghost use Rattle.srt_mailbox.specs.Identities.{identity_in};
    ghost use Rattle.srt_mailbox.specs.Looks.{IsRouteWith};
    ghost use Rattle.srt_mailbox.specs.Visits.{queried_in, queried_last};

    ghost holds = { λ cell route waiting. IsRouteWith (identity_in cell) route waiting };

    /// Makes a batch of at most `most` steps of the route, if no other call has it, until a step finds no work or a
    /// full outbox, or the gate refuses one; the gate is queried before each. The route is claimed once for the batch,
    /// since a claim and its return are four locked operations. Doesn't allocate and doesn't wait for the route.
    fn visit<R: Wait, G: Gate>(&self, rt: &R, gate: &mut G, most: u32) -> Visit
        ensures most { result.turns ≤ most }
        ensures moved { result.moved ≤ result.turns }
        ensures all { result.end ≡ None → result.turns ≡ most }
        ensures held { result.end ≡ Some GateRefused → Grew (G.held gate.old) (G.held gate.new) }
        ensures passed { result.end ≢ Some GateRefused → G.held gate.new ≡ G.held gate.old }
        ensures busy { result.end ≡ Some ClaimedElsewhere → (result.turns ≡ 0) × (gate.new ≡ gate.old) }
        ensures requested { G.requested gate.new ≡ option_map (queried_in (identity_in self.now).index result) (G.requested gate.old) }
        ensures elsewhere { result.end ≡ Some ClaimedElsewhere → G.elsewhere gate.new (identity_in self.now).index }
    {
        match self.visit_claimed(rt, gate, most) {
            Ok((visit, _)) => visit,
            Err(taken) => {
                gate.is_elsewhere(self.index, taken);
                Visit {
                    turns: 0,
                    moved: 0,
                    end: Some(Served::ClaimedElsewhere),
                }
            }
        }
    }

    fn serve<R: Wait, G: Gate>(&self, rt: &R, gate: &mut G) -> Served
        ensures held { result ≡ GateRefused → Grew (G.held gate.old) (G.held gate.new) }
        ensures requested { G.requested gate.new ≡ option_map (queried_last (identity_in self.now).index result) (G.requested gate.old) }
        ensures elsewhere { result ≡ ClaimedElsewhere → G.elsewhere gate.new (identity_in self.now).index }
    {
        RouteCell::serve(self, rt, gate)
    }

    fn show<R: Wait, L: Observer>(&self, rt: &R, look: &mut L) -> Result<(), Unshown> {
        match self.show_claimed(rt, look) {
            Ok(_) => {}
            Err(elsewhere) => return Err(Unshown::Claimed(elsewhere)),
        }
        Ok(())
    }
}

fn is_sync<T: Sync + Send>(_it: &T) {}

// Compiles only if threads may share a cell.
fn cell_is_sync(cell: &RouteCell) {
    is_sync(cell);
}
