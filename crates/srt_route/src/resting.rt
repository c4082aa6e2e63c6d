//! Routes at rest: no session is open, and the route wasn't closed. A route can be opened as one that rests after other
//! items, of which it needs the clock and each slot's generation alone.

ghost use Rattle.std.specs.Prelude.{◌≡◌, ℕ, ◌+◌, ◌*◌, ◌%◌, ◌≤◌, ◌<◌, [], List, length, None, Some, Err, IfOk, IfErr};
ghost use Rattle.srt_types.specs.declared.shared.OpenFault.{OpenFault as TheFault};
ghost use Rattle.srt_types.specs.Terms.{Terms, terms_of};
ghost use Rattle.srt_types.specs.Items.{Item as TheItem};
ghost use Rattle.srt_route.specs.Opening.{fault_at_rest};
ghost use Rattle.srt_route.specs.Sessions.{generation_of};
ghost use Rattle.srt_route.specs.Route.{after};
ghost use Rattle.srt_route.specs.Rests.{RestsAs, is_at_rest};
ghost use Rattle.srt_route.specs.Ledgers.{ended_in};
ghost use Rattle.srt_route.specs.Totals.{no_totals, totals_of_ended};
ghost use Rattle.srt_route.specs.Tallies.{no_tally, tally_in};
ghost use Rattle.srt_route.specs.Stands.{stands, waiting, places};

use crate::opening::check_rest;
use crate::route::Route;
use crate::seat::are_vacant;
use crate::stage::Stage;
use crate::table::generation_at;
use srt_types::{Entry, OpenFault};
use std::alloc::Global;

impl Route {
    /// Opens a route that continues where another route with the same entry and index rests: with its clock, in
    /// microseconds, and with the number of sessions, modulo 2^16, that were ever opened in each of its slots
    /// (`clock` and `generation`). It replies as that one would, and keeps none of its ended sessions and counts. Keys
    /// aren't handed over, so an entry with a passphrase is refused. Allocates as `open` does. Errors: `Names` if the name
    /// has a wrong form, else `Limits` if the index or a number is outside its limits, the entry has a passphrase, the
    /// number of generations isn't the number of sessions, or the clock is 2^62 or more, else `OutOfMemory`.
    pub fn open_resting(
        alloc: Global,
        entry: &Entry,
        index: usize,
        clock: u64,
        generations: &[u16],
    ) -> Result<Route, OpenFault>
        ensures stands { IfOk result (λ route. (items : List TheItem) →
            RestsAs (terms_of entry.now) index items clock generations.now → stands route (terms_of entry.now) index items) }
        ensures none_waits { IfOk result (λ route. waiting route ≡ []) }
        ensures none_ended { IfOk result (λ route. (slot : ℕ) → ended_in slot route ≡ None) }
        ensures tally { IfOk result (λ route. tally_in route ≡ no_tally) }
        ensures totals { IfOk result (λ route. totals_of_ended route ≡ no_totals) }
        ensures room { IfOk result (λ route. places route ≡ 4 + 66 * entry.now.sessions) }
        ensures sound { IfOk result (λ _. fault_at_rest (terms_of entry.now) index clock (length generations.now) ≡ None) }
        ensures fault { (fault : TheFault) → fault_at_rest (terms_of entry.now) index clock (length generations.now) ≡ Some fault → result ≡ Err fault }
        ensures memory { fault_at_rest (terms_of entry.now) index clock (length generations.now) ≡ None →
            IfErr result (λ fault. fault ≡ OpenFault.OutOfMemory) }
    {
        check_rest(entry, index, clock, generations)?;
        Route::open_checked(alloc, entry, index, clock, generations)
    }

    /// Whether the route rests: no session is open, and it wasn't closed. Linear in the seats, at most 17.
    pub fn is_at_rest(&self) -> bool
        ensures { (e : Terms) (index : ℕ) (items : List TheItem) → stands self.now e index items → result ≡ is_at_rest (after e index items) }
    {
        match &self.stage {
            Stage::Open { table, .. } => are_vacant(&table.seats),
            Stage::Closed(_) => false,
        }
    }

    /// Whether the route was closed.
    pub fn is_closed(&self) -> bool
        ensures { (e : Terms) (index : ℕ) (items : List TheItem) → stands self.now e index items → result ≡ (after e index items).is_closed }
    {
        matches!(self.stage, Stage::Closed(_))
    }

    /// Returns the number of sessions that were ever opened in a slot, from 0, modulo 2^16; 0 if there is no such slot.
    pub fn generation(&self, slot: usize) -> u16
        ensures value { (e : Terms) (index : ℕ) (items : List TheItem) → stands self.now e index items →
            slot < e.sessions → result ≡ generation_of (after e index items).sessions slot % 65536 }
        ensures none { (e : Terms) (index : ℕ) (items : List TheItem) → stands self.now e index items → e.sessions ≤ slot → result ≡ 0 }
    {
        match &self.stage {
            Stage::Open { table, .. } => table.generation(slot),
            Stage::Closed(generations) => generation_at(generations, slot),
        }
    }
}
