//! A change of the run's routes, with all memory that it needs here allocated.

ghost use Rattle.std.specs.Prelude.{◌≡◌, ◌≤◌, ◌+◌, true, [], ◌∷◌, ◌++◌, IfOk, IfErr, OnOk, length, map, slice_get, vec_len, vec_capacity};
ghost use Rattle.srt_types.specs.Terms.{terms_of};
ghost use Rattle.srt_watch.specs.Expecting.{IsExpecting};
ghost use Rattle.srt_watch.specs.Following.{IsWanted};
ghost use Rattle.srt_watch.specs.Indexes.{closing, indexes_from, numbers_of, changes_nothing, opens};
ghost use Rattle.srt_watch.specs.Requests.{opened_by, config_of};
ghost use Rattle.srt_watch.specs.Openings.{opening_name, AreOpening};
ghost use Rattle.srt_watch.specs.Preparing.{HasClosings, HasOpening, HasPrepared, IsPrepared, NamesRoute, NamesNone, IsNoRoom};
ghost use Rattle.srt_watch.specs.Outcomes.{SameRoutes};

use crate::in_force::{InForce, Wanted};
use crate::indexes::{fill_indexes, index_at};
use crate::memory::{WantForRoute, WantOfMemory};
use crate::watched_routes::{OpeningRoute, WatchedRoutes};
use srt_config::RouteChange;
use srt_log::ChangeSummary;
use srt_status::RouteStatus;
use srt_supervision::RouteChanges;
use srt_types::Entry;
use std::alloc::{AllocError, Global};
use std::fmt::InlineText;

/// What the memory of a change was for, where its allocation failed.
#[derive(Clone, Copy)]
pub(crate) enum NoRoom {
    /// The route of this name, cut off at 64 bytes.
    Route(InlineText<64>, WantForRoute),
    /// Something else.
    Lists(WantOfMemory),
}

impl NoRoom {
    // Returns that there was none for the route of this entry.
    fn of_route(entry: &Entry, want: WantForRoute) -> NoRoom
        ensures { NamesRoute (terms_of entry.now) result }
    {
        NoRoom::Route(InlineText::of(entry.name.as_str()), want)
    }
}

impl From<AllocError> for NoRoom {
    ghost from_gives = { λ _ why. NamesNone why };

    fn from(error: AllocError) -> NoRoom {
        NoRoom::Lists(WantOfMemory::from(error))
    }
}

// A copy of an entry, for the run. Allocates; the error is evidence that memory for it was refused.
fn copied(alloc: Global, entry: &Entry) -> Result<Entry, WantForRoute>
    ensures { IfOk result (λ copy. terms_of copy ≡ terms_of entry.now) }
{
    Ok(Entry {
        name: String::from_str(alloc, entry.name.as_str())?,
        mode: entry.mode,
        latency_ms: entry.latency_ms,
        buffer: entry.buffer,
        sessions: entry.sessions,
        inbox: entry.inbox,
        outbox: entry.outbox,
        access: entry.access.copy(alloc)?,
        rules: entry.rules,
    })
}

/// A change as it is prepared: what is requested of the run, and what is kept here.
#[derive(Drop)]
pub(crate) struct Preparation {
    numbers: ChangeSummary,
    // the indexes of the routes that close
    closes: Vec<usize>,
    // the entries of the routes that open, for the run
    entries: Vec<Entry>,
    // the same routes, as they are watched
    opening: Vec<OpeningRoute>,
}

impl Preparation {
    // Begins with the routes at these places, which close since their names are gone. Allocates; the only error is out of
    // memory.
    #[tactic(auto, using(crate::proofs::Appended::mapped))]
    fn begin(alloc: Global, indexes: &[usize], gone: &[usize]) -> Result<Preparation, AllocError>
        ensures { IfOk result (HasClosings indexes.now gone.now) }
    {
        let mut closes = Vec::with_capacity(alloc, gone.len())?;
        for place in gone {
            closes.push(index_at(indexes, *place))?;
        }
        Ok(Preparation {
            numbers: ChangeSummary {
                staying: 0,
                opening: 0,
                closing: gone.len() as u64,
                changing: 0,
            },
            closes,
            entries: Vec::new(alloc),
            opening: Vec::new(alloc),
        })
    }

    // Adds a route that opens. Allocates; the error is evidence that memory for it was refused.
    #[tactic(auto, using(crate::proofs::Appended::entry_added))]
    fn open(&mut self, alloc: Global, entry: &Entry) -> Result<(), WantForRoute>
        ensures entries { OnOk result (map terms_of self.new.entries.items ≡ map terms_of self.old.entries.items ++ terms_of entry.now ∷ []) }
        ensures opening { OnOk result (HasOpening (terms_of entry.now) self.old.opening.items self.new.opening.items) }
        ensures numbers { self.new.numbers ≡ self.old.numbers }
        ensures closes { self.new.closes ≡ self.old.closes }
    {
        self.entries.push(copied(alloc, entry)?)?;
        self.opening.push(OpeningRoute::new(alloc, entry)?)?;
        Ok(())
    }

    // Adds a route of the changed configuration: counts it, closes the route that it replaces, and opens it if it has to.
    // Allocates; the error is evidence that memory for it was refused, and such a route opens.
    fn add(
        &mut self,
        alloc: Global,
        indexes: &[usize],
        change: RouteChange,
        entry: &Entry,
    ) -> Result<(), WantForRoute>
        ensures refused { IfErr result (λ _. opens change ≡ true) }
        ensures prepared { OnOk result (HasPrepared indexes.now change (terms_of entry.now) self.old self.new) }
    {
        match change {
            RouteChange::Stays(_) => {
                self.numbers.staying = self.numbers.staying.saturating_add(1);
                Ok(())
            }
            RouteChange::Reopens(place) => {
                self.numbers.changing = self.numbers.changing.saturating_add(1);
                self.closes.push(index_at(indexes, place))?;
                self.open(alloc, entry)
            }
            RouteChange::Opens => {
                self.numbers.opening = self.numbers.opening.saturating_add(1);
                self.open(alloc, entry)
            }
        }
    }

    // The whole change to a configuration. Allocates; the error names the route for which that failed.
    fn of(alloc: Global, indexes: &[usize], wanted: &Wanted) -> Result<Preparation, NoRoom>
        requires { length wanted.now.changes.routes.items ≡ length wanted.now.config.entries.items }
        ensures prepared { IfOk result (IsPrepared indexes.now wanted.now.changes.gone.items wanted.now.changes.routes.items
            (map terms_of wanted.now.config.entries.items)) }
        ensures no_room { IfErr result (IsNoRoom (opened_by wanted.now.changes.routes.items (map terms_of wanted.now.config.entries.items))) }
    {
        let mut prepared = Preparation::begin(alloc, indexes, wanted.changes.gone.as_slice())?;
        let mut rest = wanted.changes.routes.as_slice();
        let mut entries = wanted.config.entries.as_slice();
        while !rest.is_empty() {
            match prepared.add(alloc, indexes, rest[0], &entries[0]) {
                Ok(()) => {}
                Err(want) => return Err(NoRoom::of_route(&entries[0], want)),
            }
            rest = &rest[1..];
            entries = &entries[1..];
        }
        Ok(prepared)
    }
}

// The memory that a change needs here.
#[derive(Drop)]
struct Room {
    // empty, with room for the index of each route of the changed configuration
    indexes: Vec<usize>,
    // the routes that open, in their order
    opening: Vec<OpeningRoute>,
    // empty, with room for the status of each route of the changed configuration
    shown: Vec<RouteStatus>,
}

/// A change that the run can be requested to make. To put its configuration in force allocates nothing.
#[derive(Drop)]
pub(crate) struct PreparedChange {
    numbers: ChangeSummary,
    room: Room,
    wanted: Wanted,
    ghost empty: { (room.indexes.items ≡ []) × (vec_len room.indexes ≡ 0) },
    ghost fits: { length wanted.changes.routes.items ≤ vec_capacity room.indexes },
    ghost none_shown: { (room.shown.items ≡ []) × (vec_len room.shown ≡ 0) },
    ghost all_shown: { length wanted.changes.routes.items ≤ vec_capacity room.shown },
}

impl PreparedChange {
    /// The change to a valid configuration, and what the run is to be requested. Allocates; after an error nothing has
    /// changed.
    #[tactic(auto, using(crate::proofs::PreparedRoutes::each_changes, crate::proofs::PreparedRoutes::none_named))]
    pub(crate) fn of(
        alloc: Global,
        in_force: &InForce<'_>,
        routes: &mut WatchedRoutes,
        wanted: Wanted,
    ) -> Result<(PreparedChange, RouteChanges), NoRoom>
        requires { IsWanted in_force.now wanted }
        ensures wanted { IfOk result (λ p. p.0.wanted ≡ wanted) }
        ensures numbers { IfOk result (λ p. p.0.numbers ≡ numbers_of wanted.changes.gone.items wanted.changes.routes.items) }
        ensures closes { IfOk result (λ p. p.1.closes.items ≡ closing in_force.now.indexes.items wanted.changes.gone.items wanted.changes.routes.items) }
        ensures opens { IfOk result (λ p. map terms_of p.1.opens.items ≡ opened_by wanted.changes.routes.items (map terms_of wanted.config.entries.items)) }
        ensures opening { IfOk result (λ p. AreOpening (opened_by wanted.changes.routes.items (map terms_of wanted.config.entries.items))
            p.0.room.opening.items) }
        ensures no_room { IfErr result (IsNoRoom (opened_by wanted.changes.routes.items (map terms_of wanted.config.entries.items))) }
        ensures routes { SameRoutes routes.old routes.new }
        ensures room { IfOk result (λ p. vec_len routes.new.routes + length p.0.room.opening.items ≤ vec_capacity routes.new.routes) }
    {
        let Preparation {
            numbers,
            closes,
            entries,
            opening,
        } = Preparation::of(alloc, in_force.indexes(), &wanted)?;
        let configured = wanted.changes.routes.len();
        let indexes = Vec::with_capacity(alloc, configured)?;
        let shown = routes.make_room(alloc, opening.len(), configured)?;
        let prepared = PreparedChange {
            numbers,
            room: Room {
                indexes,
                opening,
                shown,
            },
            wanted,
        };
        let changes = RouteChanges {
            closes,
            opens: entries,
        };
        Ok((prepared, changes))
    }

    /// The number of routes of each kind.
    pub(crate) fn numbers(&self) -> ChangeSummary
        ensures { result ≡ self.now.numbers }
    {
        self.numbers
    }

    /// Whether no route opens or closes: the configuration has the same routes, perhaps in another order.
    pub(crate) fn changes_nothing(&self) -> bool
        ensures { result ≡ changes_nothing self.now.numbers }
    {
        let numbers = self.numbers;
        numbers.opening == 0 && numbers.closing == 0 && numbers.changing == 0
    }

    /// The configuration, and what it changes.
    pub(crate) fn wanted(&self) -> &Wanted
        ensures { result.now ≡ self.now.wanted }
    {
        &self.wanted
    }

    /// The number of routes that open.
    pub(crate) fn opens(&self) -> usize
        ensures { result ≡ length self.now.room.opening.items }
    {
        self.room.opening.len()
    }

    /// The name of the route at this place of those that open; empty if there is none.
    pub(crate) fn name_at(&self, place: usize) -> &str
        ensures { result.now ≡ opening_name (slice_get self.now.room.opening.items place) }
    {
        match self.room.opening.get(place) {
            Some(opening) => opening.name(),
            None => "",
        }
    }

    /// Puts the configuration in force, and expects the routes on air that it expects so. The routes that open have the indexes from
    /// `first` on. Doesn't allocate.
    pub(crate) fn put_in_force(
        self,
        alloc: Global,
        first: usize,
        in_force: &mut InForce<'_>,
        routes: &mut WatchedRoutes,
    )
        requires { vec_len routes.old.routes + length self.room.opening.items ≤ vec_capacity routes.old.routes }
        ensures config { config_of in_force.new ≡ self.wanted.config }
        ensures indexes { in_force.new.indexes.items ≡ indexes_from in_force.old.indexes.items first self.wanted.changes.routes.items }
        ensures routes { IsExpecting routes.old routes.new self.wanted.changes.routes.items in_force.new.indexes.items self.room.opening.items
            self.wanted.config.expected.items }
    {
        let PreparedChange {
            numbers: _,
            room,
            wanted,
        } = self;
        let Room {
            indexes,
            opening,
            shown,
        } = room;
        let Wanted { config, changes } = wanted;
        let changes = changes.routes.as_slice();
        let indexes = fill_indexes(indexes, changes, in_force.indexes(), first);
        routes.change(alloc, changes, indexes.as_slice(), opening, shown);
        routes.expect(config.expected.as_slice());
        in_force.put(config, indexes);
    }
}
