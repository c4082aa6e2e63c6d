//! A route's state. An event has six steps, which docs/PROTOCOL.md describes in its section "A route".

ghost use Rattle.std.specs.Prelude.{◌≡◌, ◌<◌, ◌^◌, max};
ghost use Rattle.srt_types.specs.Items.{input_of, moment_of};
ghost use Rattle.srt_route.specs.Route.{closes};

use crate::event::{Event, process};
use crate::ledger::Ledger;
use crate::opening::check_entry;
use crate::replies::Reply;
use crate::reply_queue::{ReplyQueue, ScratchBoxes};
use crate::route_keys::RouteKeys;
use crate::stage::{Stage, generations_of};
use crate::table::Table;
use srt_types::{Entry, Item, OpenFault};
use std::alloc::Global;
use std::mem;

/// A route: its sessions and their buffers, and the replies that wait. It allocates nothing after `open`, and gives its
/// buffers back when it is closed. The fields that every event reads are first and together, in a few cache lines.
#[derive(Drop)]
pub struct Route {
    /// The greatest time of any item so far, in microseconds.
    pub(crate) clock: u64,
    /// The replies that wait to be sent.
    pub(crate) waiting: ReplyQueue,
    /// The sessions and their buffers, unless the route was closed: then only its clock advances.
    pub(crate) stage: Stage,
    /// The ended sessions that are kept, and the route's counts.
    pub(crate) ledger: Ledger,
    pub(crate) ghost early: { clock < 2 ^ 62 },
}

/// Returns the later of two times.
fn later(clock: u64, moment: u64) -> u64
    ensures { result ≡ max clock moment }
{
    clock.max(moment)
}

/// Returns an item's time, in microseconds.
fn moment(item: &Item) -> u64
    ensures { result ≡ moment_of (input_of item.now) }
{
    match item {
        Item::Tick { moment } => *moment,
        Item::Close { moment } => *moment,
        Item::Datagram {
            peer: _,
            moment,
            head: _,
            body: _,
        } => *moment,
    }
}

/// Whether an item closes the route.
fn closes(item: &Item) -> bool
    ensures { result ≡ closes (input_of item.now) }
{
    matches!(item, Item::Close { moment: _ })
}

impl Route {
    ghost use Rattle.std.specs.Prelude.{◌↔◌, ℕ, ◌+◌, ◌*◌, ◌∷◌, [], List, length, None, Some, Err, IfOk, IfErr, true, false};
    ghost use Rattle.srt_types.specs.declared.shared.OpenFault.{OpenFault as TheFault};
    ghost use Rattle.srt_types.specs.Terms.{Terms, terms_of};
    ghost use Rattle.srt_types.specs.Items.{Item as TheItem};
    ghost use Rattle.srt_route.specs.Opening.{fault_of};
    ghost use Rattle.srt_route.specs.Written.{written};
    ghost use Rattle.srt_route.specs.Sessions.{open_publishers};
    ghost use Rattle.srt_route.specs.Route.{after, reply, route_before};
    ghost use Rattle.srt_route.specs.Ledgers.{ended_in};
    ghost use Rattle.srt_route.specs.Ends.{KeepsEnds, kept_in};
    ghost use Rattle.srt_route.specs.Totals.{SumsGrow, no_totals, totals_of_ended};
    ghost use Rattle.srt_route.specs.Tallies.{no_tally, tally_after, tally_in};
    ghost use Rattle.srt_route.specs.Stands.{HasGivenBack, stands, waiting, places};
    ghost use Rattle.srt_route.specs.Rests.{RestsAs};

    /// Opens a route without sessions, at clock 0. `index` is the route's position in the configuration, below 511.
    /// Allocates all memory that the route will ever need: the buffers of its sessions, 66 replies for each session and
    /// 4 more, and 4 scratch boxes. Errors: `Names` if the name has a wrong form, else `Limits` if the index or a
    /// number is outside its limits, else `OutOfMemory`.
    pub fn open(alloc: Global, entry: &Entry, index: usize) -> Result<Route, OpenFault>
        ensures stands { IfOk result (λ route. stands route (terms_of entry.now) index []) }
        ensures none_waits { IfOk result (λ route. waiting route ≡ []) }
        ensures none_ended { IfOk result (λ route. (slot : ℕ) → ended_in slot route ≡ None) }
        ensures tally { IfOk result (λ route. tally_in route ≡ no_tally) }
        ensures totals { IfOk result (λ route. totals_of_ended route ≡ no_totals) }
        ensures room { IfOk result (λ route. places route ≡ 4 + 66 * entry.now.sessions) }
        ensures sound { IfOk result (λ _. fault_of (terms_of entry.now) index ≡ None) }
        ensures fault { (fault : TheFault) → fault_of (terms_of entry.now) index ≡ Some fault → result ≡ Err fault }
        ensures memory { fault_of (terms_of entry.now) index ≡ None → IfErr result (λ fault. fault ≡ OpenFault.OutOfMemory) }
    {
        check_entry(entry, index)?;
        Route::open_checked(alloc, entry, index, 0, &[])
    }

    /// Opens a route at rest, with this clock, whose slots have these generations; 0 where none is given. The entry, the
    /// index and the clock were checked. Allocates as `open` does.
    pub(crate) fn open_checked(
        alloc: Global,
        entry: &Entry,
        index: usize,
        clock: u64,
        generations: &[u16],
    ) -> Result<Route, OpenFault>
        requires sound { fault_of (terms_of entry.now) index ≡ None }
        requires early { clock < 2 ^ 62 }
        ensures stands { IfOk result (λ route. (items : List TheItem) →
            RestsAs (terms_of entry.now) index items clock generations.now → stands route (terms_of entry.now) index items) }
        ensures none_waits { IfOk result (λ route. waiting route ≡ []) }
        ensures none_ended { IfOk result (λ route. (slot : ℕ) → ended_in slot route ≡ None) }
        ensures tally { IfOk result (λ route. tally_in route ≡ no_tally) }
        ensures totals { IfOk result (λ route. totals_of_ended route ≡ no_totals) }
        ensures room { IfOk result (λ route. places route ≡ 4 + 66 * entry.now.sessions) }
        ensures memory { IfErr result (λ fault. fault ≡ OpenFault.OutOfMemory) }
    {
        let table = Table::open(alloc, entry, index, generations)?;
        let room = 4 + 66 * (entry.sessions as usize);
        let Ok(waiting) = ReplyQueue::open(alloc, room) else {
            return Err(OpenFault::OutOfMemory);
        };
        let Ok(scratch) = ScratchBoxes::open(alloc) else {
            return Err(OpenFault::OutOfMemory);
        };
        let Ok(keys) = RouteKeys::open(alloc, entry) else {
            return Err(OpenFault::OutOfMemory);
        };
        Ok(Route {
            clock,
            waiting,
            stage: Stage::Open {
                table,
                keys,
                scratch,
            },
            ledger: Ledger::new(),
        })
    }

    /// Processes one event: a datagram, a tick or a Close, whose time is in microseconds. Returns the number of replies
    /// that now wait: at most 66 for each session that the entry allows, and 4 more; none if the route was closed
    /// before. Fetch them all with `next_reply` before the next call. Allocates nothing. A Close gives back all buffers
    /// but those of the replies that wait.
    pub fn step(&mut self, item: &Item) -> usize
        requires none_waits { waiting self.old ≡ [] }
        requires timely { moment_of (input_of item.now) < 2 ^ 62 }
        ensures count { result ≡ length (waiting self.new) }
        ensures stands { (e : Terms) (index : ℕ) (items : List TheItem) → stands self.old e index items → stands self.new e index (input_of item.now ∷ items) }
        ensures replies { (e : Terms) (index : ℕ) (items : List TheItem) →
            stands self.old e index items → waiting self.new ≡ reply e index (input_of item.now ∷ items) }
        ensures ends { (e : Terms) (index : ℕ) (items : List TheItem) → stands self.old e index items →
            KeepsEnds e index (input_of item.now) (route_before e index (input_of item.now) items) (kept_in self.old) (kept_in self.new) }
        ensures tally { (e : Terms) (index : ℕ) (items : List TheItem) → stands self.old e index items → tally_in self.new ≡
            tally_after e index (input_of item.now) (route_before e index (input_of item.now) items) (tally_in self.old) }
        ensures sums { SumsGrow (totals_of_ended self.old) (totals_of_ended self.new) }
        ensures released { (e : Terms) (index : ℕ) (items : List TheItem) → stands self.old e index items →
            (after e index (input_of item.now ∷ items)).is_closed ≡ true → HasGivenBack self.new }
    {
        // 1: the clock is monotonic. After a Close nothing else happens.
        self.clock = later(self.clock, moment(item));
        match &mut self.stage {
            Stage::Open {
                table,
                keys,
                scratch,
            } => {
                let event = Event {
                    clock: self.clock,
                    item,
                };
                process(
                    table,
                    keys,
                    scratch,
                    &mut self.ledger,
                    event,
                    &mut self.waiting,
                );
                if !closes(item) {
                    return self.waiting.len();
                }
                let generations = generations_of(&table.seats);
                mem::drop(mem::replace(&mut self.stage, Stage::Closed(generations)));
                self.waiting.trim();
                self.waiting.len()
            }
            Stage::Closed(_) => 0,
        }
    }

    /// Returns the greatest time of any item so far, in microseconds; 0 before the first item.
    pub fn clock(&self) -> u64
        ensures { (e : Terms) (index : ℕ) (items : List TheItem) → stands self.now e index items → result ≡ (after e index items).clock }
    {
        let Route { clock, .. } = self;
        *clock
    }

    /// Returns the number of open publishers, at most 2 (`laws::open_sessions`). O(1).
    pub fn publishers(&self) -> usize
        ensures { (e : Terms) (index : ℕ) (items : List TheItem) → stands self.now e index items → result ≡ open_publishers (after e index items).sessions }
    {
        match &self.stage {
            Stage::Open { table, .. } => table.open_publishers,
            Stage::Closed(_) => 0,
        }
    }

    /// Whether a reply waits.
    pub fn waits(&self) -> bool
        ensures { (result ≡ true) ↔ (0 < length (waiting self.now)) }
    {
        self.waiting.len() > 0
    }

    /// Puts the oldest waiting reply into `place` by exchanging boxes; the box that was in `place` is kept for a later
    /// reply, or given back if the route was closed. Returns false and changes nothing if none waits. O(1). Allocates
    /// nothing.
    pub fn next_reply(&mut self, place: &mut Box<Reply>) -> bool
        ensures first { result ≡ true → waiting self.old ≡ written place.new.value ∷ waiting self.new }
        ensures none { result ≡ false → (waiting self.old ≡ []) × (self.new ≡ self.old) × (place.new ≡ place.old) }
        ensures kept { (slot : ℕ) → ended_in slot self.new ≡ ended_in slot self.old }
        ensures tally { tally_in self.new ≡ tally_in self.old }
        ensures sums { totals_of_ended self.new ≡ totals_of_ended self.old }
        ensures stands { (e : Terms) (index : ℕ) (items : List TheItem) → stands self.old e index items → stands self.new e index items }
        ensures released { HasGivenBack self.old → HasGivenBack self.new }
    {
        match &self.stage {
            Stage::Open { .. } => self.waiting.next(place),
            Stage::Closed(_) => self.waiting.next_and_trim(place),
        }
    }
}
