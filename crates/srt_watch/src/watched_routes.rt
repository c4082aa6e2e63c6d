//! The routes of a run, by their indexes, and the status of those in the configuration in force.

ghost use Rattle.std.specs.Prelude.{◌≡◌, ◌≤◌, ◌<◌, ◌+◌, ◌++◌, List, Option, IfOk, OnOk, IfSome, Some, [], ◌∷◌, map, length, option_map};
ghost use Rattle.std.specs.Prelude.{slice_get, slice_set, string_bytes, vec_len, vec_capacity};
ghost use Rattle.std.specs.Option.{option_copied};
ghost use Rattle.std.specs.List.{position};
ghost use Rattle.std.specs.Vec.Iter.{into_iter_items, into_iter_len};
ghost use Rattle.srt_status.specs.declared.route_status.RouteStatus.{RouteStatus as TheStatus};
ghost use Rattle.srt_types.specs.Terms.{terms_of};
ghost use Rattle.srt_watch.specs.Census.{status_with, with_look, absence_of};
ghost use Rattle.srt_watch.specs.Expecting.{is_expected, expecting, all_expecting, AreExpecting};
ghost use Rattle.srt_watch.specs.Log.{most};
ghost use Rattle.srt_watch.specs.FirstRoutes.{HasShownMore, HasOpened};
ghost use Rattle.srt_watch.specs.Openings.{fresh_status, IsOpening};
ghost use Rattle.srt_watch.specs.Observing.{status_place, status_at, with_snapshot, with_take_overs, with_ends, changed_if, grown_of, HasObserved};
ghost use Rattle.srt_watch.specs.RouteLines.{ends_to};
ghost use Rattle.srt_watch.specs.Placing.{unplaced, placed, all_placed, added, added_by, rest_by, opened_routes, status_by, kept_by, next_statuses};
ghost use Rattle.srt_watch.specs.Placing.{IsKnown, AreKnown, IsRouted};
ghost use Rattle.srt_watch.specs.Holding.{is_open, has_sessions, is_used_at, first_used};
ghost use Rattle.srt_watch.specs.Routes.{used_of, has_index, is_of, place_of, route_at, name_of};

use crate::census::{grown_limits, limits_of, look_at, note_route};
use crate::indexes::index_at;
use crate::route_lines::ends_after;
use crate::showing::{first_snapshot, sessions_of, snapshot_of};
use srt_config::RouteChange;
use srt_log::{RouteSnapshot, SlotSession};
use srt_route::{Route, SessionView, Totals};
use srt_status::{EndCounts, LimitCounts, RefusalCounts, RouteHistory, RouteStatus, expected_if};
use srt_sub::Sendings;
use srt_types::product_limits::MAX_SESSIONS;
use srt_types::{Entry, Mode};
use std::alloc::{AllocError, Global};
use std::mem;
use std::vec::IntoIter;

// The totals of a route without sessions.
const NO_TOTALS: Totals = Totals {
    received: srt_pub::Counts {
        arrived: 0,
        late: 0,
        ahead: 0,
        received: 0,
        bytes: 0,
        delivered: 0,
        given_up: 0,
        naks: 0,
        reported_lost: 0,
        full_window_acks: 0,
    },
    queued: srt_sub::Counts {
        queued: 0,
        bytes: 0,
        naks: 0,
        given_up: 0,
        misdirected: 0,
    },
    sent: Sendings {
        fresh: 0,
        resent: 0,
    },
};

// A route of the run.
#[derive(Drop)]
struct WatchedRoute {
    index: usize,
    name: String,
    // the last snapshot
    snapshot: RouteSnapshot,
    // its place among the routes of the configuration in force; none once it is no longer in it
    place: Option<usize>,
}

/// A route that is to open while the gateway runs, with its memory.
#[derive(Drop)]
pub(crate) struct OpeningRoute {
    name: String,
    status: RouteStatus,
}

/// Two snapshots of a route, and what else was found at the later one.
#[derive(Clone, Copy)]
pub(crate) struct SnapshotPair {
    pub old: RouteSnapshot,
    pub new: RouteSnapshot,
    /// What the limits of the route refused between them, if a line is to tell of it.
    pub grown: Option<LimitCounts>,
    /// For how many minutes the route has had no encoder, if it is expected to be on air and a line is to tell of it.
    pub absent: Option<u64>,
}

/// The routes of a run, closed ones included, and the status of those in the configuration in force.
#[derive(Drop)]
pub(crate) struct WatchedRoutes {
    // in rising order of their indexes
    routes: Vec<WatchedRoute>,
    // in the order of the configuration
    shown: Vec<RouteStatus>,
}

impl WatchedRoute {
    fn has_index(&self, index: usize) -> bool
        ensures { result ≡ has_index index self.now }
    {
        self.index == index
    }
}

// Whether the route at this place has this index.
fn is_at(routes: &[WatchedRoute], place: usize, index: usize) -> bool
    ensures { result ≡ is_of index (slice_get routes.now place) }
{
    match routes.get(place) {
        Some(route) => route.has_index(index),
        None => false,
    }
}

// Returns the first place at which a route has this index.
fn find(routes: &[WatchedRoute], index: usize) -> Option<usize>
    ensures { result ≡ position (has_index index) routes.now }
{
    routes.iter().position(|route| route.has_index(index))
}

// Whether a session is open in a slot.
fn is_open(slot: &Option<SlotSession>) -> bool
    ensures { result ≡ is_open slot.now }
{
    matches!(slot, Some(SlotSession::Open(_)))
}

// Whether a session is open at a snapshot of a route.
fn has_sessions(snapshot: &RouteSnapshot) -> bool
    ensures { result ≡ has_sessions snapshot.now }
{
    snapshot.slots.iter().any(|slot| is_open(slot))
}

// Returns the place of the route with this index. That is the index itself, unless the run left indexes out.
fn place_of(routes: &[WatchedRoute], index: usize) -> Option<usize>
    ensures { result ≡ place_of routes.now index }
{
    if is_at(routes, index, index) {
        return Some(index);
    }
    find(routes, index)
}

// Returns the status of a route before its first snapshot, without a name.
fn empty_status(alloc: Global, mode: Mode, sessions: u32) -> RouteStatus
    ensures { result ≡ fresh_status result mode sessions }
{
    RouteStatus {
        name: String::new(alloc),
        mode,
        sessions_allowed: sessions,
        sessions: [None; MAX_SESSIONS],
        totals: NO_TOTALS,
        opened: 0,
        refused: RefusalCounts::default(),
        limits: None,
        take_overs: Some(0),
        ends: Some(EndCounts::default()),
        expectation: None,
        history: RouteHistory::new(),
    }
}

impl OpeningRoute {
    /// Returns the route of this entry. Allocates two copies of its name; the only error is out of memory.
    pub(crate) fn new(alloc: Global, entry: &Entry) -> Result<OpeningRoute, AllocError>
        ensures { IfOk result (IsOpening (terms_of entry.now)) }
    {
        let mut status = empty_status(alloc, entry.mode, entry.sessions);
        status.name = String::from_str(alloc, entry.name.as_str())?;
        Ok(OpeningRoute {
            name: String::from_str(alloc, entry.name.as_str())?,
            status,
        })
    }

    /// Returns its name.
    pub(crate) fn name(&self) -> &str
        ensures { result.now ≡ string_bytes self.now.name }
    {
        self.name.as_str()
    }
}

impl WatchedRoutes {
    /// Returns the routes of these entries, with the indexes from 0 on. Allocates 13 KB for each; the only error is out of
    /// memory.
    #[tactic(auto, using(crate::proofs::BeginningRoutes::opened_none, crate::proofs::BeginningRoutes::opened_next))]
    pub(crate) fn open(alloc: Global, entries: &[Entry]) -> Result<WatchedRoutes, AllocError>
        ensures { IfOk result (HasOpened (map terms_of entries.now)) }
    {
        let mut routes = WatchedRoutes {
            routes: Vec::with_capacity(alloc, entries.len())?,
            shown: Vec::with_capacity(alloc, entries.len())?,
        };
        for entry in entries {
            routes.add_shown(alloc, entry)?;
        }
        Ok(routes)
    }

    // Adds the route of an entry, with the next index, and shows it after the others. Allocates two copies of its name; the
    // only error is out of memory.
    fn add_shown(&mut self, alloc: Global, entry: &Entry) -> Result<(), AllocError>
        ensures { OnOk result (HasShownMore (terms_of entry.now) self.old self.new) }
    {
        let place = self.shown.len();
        let OpeningRoute { name, status } = OpeningRoute::new(alloc, entry)?;
        self.routes.push(WatchedRoute {
            index: place,
            name,
            snapshot: first_snapshot(),
            place: Some(place),
        })?;
        self.shown.push(status)?;
        Ok(())
    }

    /// Returns the number of indexes that are used.
    pub(crate) fn used(&self) -> usize
        ensures { result ≡ used_of self.now.routes.items }
    {
        match self.routes.last() {
            Some(route) => route.index.saturating_add(1),
            None => 0,
        }
    }

    /// Returns the routes of the configuration in force, in its order.
    pub(crate) fn shown(&self) -> &[RouteStatus]
        ensures { result.now ≡ self.now.shown.items }
    {
        self.shown.as_slice()
    }

    // Returns the route with this index.
    fn route(&self, index: usize) -> Option<&WatchedRoute>
        ensures { option_copied result ≡ route_at self.now.routes.items (place_of self.now.routes.items index) }
    {
        match place_of(self.routes.as_slice(), index) {
            Some(place) => self.routes.get(place),
            None => None,
        }
    }

    /// Returns the name of the route with this index; empty if there is none.
    pub(crate) fn name_of(&self, index: usize) -> &str
        ensures { result.now ≡ name_of self.now index }
    {
        match self.route(index) {
            Some(route) => route.name.as_str(),
            None => "",
        }
    }

    // Whether a session was open in the route with this index at its last snapshot.
    fn is_used(&self, index: usize) -> bool
        ensures { result ≡ is_used_at self.now index }
    {
        match self.route(index) {
            Some(route) => has_sessions(&route.snapshot),
            None => false,
        }
    }

    /// Returns the index of the first of these routes in which a session was open at its last snapshot: `gone` has their
    /// places, `indexes` the index of the route at each place.
    #[tactic(auto, using(crate::proofs::ChangedRoutes::used_step, crate::proofs::ChangedRoutes::used_end))]
    pub(crate) fn first_used(&self, indexes: &[usize], gone: &[usize]) -> Option<usize>
        ensures { result ≡ first_used self.now indexes.now gone.now }
    {
        let mut rest = gone;
        while !rest.is_empty() {
            let found = index_at(indexes, rest[0]);
            if self.is_used(found) {
                return Some(found);
            }
            rest = &rest[1..];
        }
        None
    }

    // Returns the place of the status of the route with this index. None if it is no longer in the configuration.
    fn status_place(&self, index: usize) -> Option<usize>
        ensures { result ≡ status_place self.now index }
    {
        match self.route(index) {
            Some(route) => route.place,
            None => None,
        }
    }

    /// Takes a snapshot of the route with this index, and updates its status. `stops`: the gateway is about to end. None
    /// if no route has the index.
    pub(crate) fn observe(
        &mut self,
        index: usize,
        route: &Route,
        moment: u64,
        stops: bool,
    ) -> Option<SnapshotPair>
        ensures { HasObserved self.old self.new index route.now moment stops result }
    {
        let sessions = sessions_of(route);
        let totals = route.totals();
        let new = snapshot_of(route, &sessions, moment, stops);
        let at = place_of(self.routes.as_slice(), index);
        let place = self.status_place(index);
        let old = put_snapshot(&mut self.routes, at, new);
        let grown = put_status(&mut self.shown, place, moment, route, &sessions, totals);
        let absent = put_look(&mut self.shown, place, &sessions, moment, stops);
        match old {
            Some(old) => Some(SnapshotPair {
                old,
                new,
                grown,
                absent,
            }),
            None => None,
        }
    }

    /// Adds this many take-overs to those of the route with this index.
    pub(crate) fn count_take_overs(&mut self, index: usize, more: u64)
        ensures routes { self.new.routes ≡ self.old.routes }
        ensures shown { self.new.shown.items ≡ changed_if (with_take_overs more) self.old.shown.items (status_place self.old index) }
    {
        let place = self.status_place(index);
        add_take_overs(&mut self.shown, place, more);
    }

    /// Counts the ends between two snapshots of the route with this index, by their reasons.
    pub(crate) fn count_ends(&mut self, index: usize, pair: &SnapshotPair)
        ensures routes { self.new.routes ≡ self.old.routes }
        ensures shown { self.new.shown.items ≡ changed_if (with_ends pair.now) self.old.shown.items (status_place self.old index) }
    {
        let place = self.status_place(index);
        add_ends(&mut self.shown, place, pair);
    }

    /// Expects the routes to be on air that a configuration expects so. `expected` has that of each route that is shown, in its order;
    /// those that it leaves out aren't expected.
    pub(crate) fn expect(&mut self, expected: &[bool])
        ensures { AreExpecting self.old self.new expected.now }
    {
        expect_all(&mut self.shown, expected);
    }

    /// Allocates what this many more routes need, and returns an empty list for the status of as many routes as the
    /// configuration will have. The only error is out of memory.
    pub(crate) fn make_room(
        &mut self,
        alloc: Global,
        opening: usize,
        configured: usize,
    ) -> Result<Vec<RouteStatus>, AllocError>
        ensures routes { self.new.routes.items ≡ self.old.routes.items }
        ensures shown { self.new.shown ≡ self.old.shown }
        ensures room { OnOk result (vec_len self.new.routes + opening ≤ vec_capacity self.new.routes) }
        ensures result { IfOk result (λ list. (list.items ≡ []) × (vec_len list ≡ 0) × (vec_capacity list ≡ configured)) }
    {
        self.routes.reserve(opening)?;
        Vec::with_capacity(alloc, configured)
    }

    // Adds a route that opens with this index, the highest so far, and returns its status. There must be room for it.
    fn add(&mut self, index: usize, opening: OpeningRoute) -> RouteStatus
        requires { vec_len self.old.routes < vec_capacity self.old.routes }
        ensures status { result ≡ opening.status }
        ensures routes { self.new.routes.items ≡ self.old.routes.items ++ added index opening ∷ [] }
        ensures room { (vec_len self.new.routes ≡ vec_len self.old.routes + 1) × (vec_capacity self.old.routes ≤ vec_capacity self.new.routes) }
        ensures shown { self.new.shown ≡ self.old.shown }
    {
        let OpeningRoute { name, status } = opening;
        let route = WatchedRoute {
            index,
            name,
            snapshot: first_snapshot(),
            place: None,
        };
        let Ok(()) = self.routes.push(route) else {
            unreachable!()
        };
        status
    }

    // Moves the status of a route that stays out of the list.
    fn taken(&mut self, alloc: Global, place: usize) -> RouteStatus
        ensures status { IfSome (slice_get self.old.shown.items place) (λ s. result ≡ s) }
        ensures shown { (other : TheStatus) × (self.new.shown.items ≡ slice_set self.old.shown.items place other) }
        ensures routes { self.new.routes ≡ self.old.routes }
    {
        let nothing = empty_status(alloc, Mode::Live, 0);
        if place >= self.shown.len() {
            return nothing;
        }
        mem::replace(&mut self.shown[place], nothing)
    }

    // Returns the status of the next route of a changed configuration, which has this index. Routes that open are added
    // in their order; there must be room for them.
    fn next_status(
        &mut self,
        alloc: Global,
        change: RouteChange,
        index: usize,
        opening: &mut IntoIter<OpeningRoute>,
    ) -> RouteStatus
        requires many { into_iter_len opening.old ≡ length (into_iter_items opening.old) }
        requires room { vec_len self.old.routes + length (into_iter_items opening.old) ≤ vec_capacity self.old.routes }
        ensures status { (kept : List (Option TheStatus)) → AreKnown kept self.old.shown.items
            → IsKnown (status_by change kept (into_iter_items opening.old)) result }
        ensures shown { (kept : List (Option TheStatus)) → AreKnown kept self.old.shown.items → AreKnown (kept_by change kept) self.new.shown.items }
        ensures routes { self.new.routes.items ≡ self.old.routes.items ++ added_by change index (into_iter_items opening.old) }
        ensures opening { into_iter_items opening.new ≡ rest_by change (into_iter_items opening.old) }
        ensures many { into_iter_len opening.new ≡ length (into_iter_items opening.new) }
        ensures room { vec_len self.new.routes + length (into_iter_items opening.new) ≤ vec_capacity self.new.routes }
    {
        match change {
            RouteChange::Stays(place) => self.taken(alloc, place),
            RouteChange::Reopens(_) | RouteChange::Opens => match opening.next() {
                Some(opening) => self.add(index, opening),
                None => empty_status(alloc, Mode::Live, 0),
            },
        }
    }

    // Puts the status of each route of a changed configuration into this list, in its order. The list must be empty and have
    // room for them, and so must the routes for those that open.
    #[tactic(auto, using(crate::proofs::GrownRoutes::partly_begun, crate::proofs::GrownRoutes::partly_more))]
    fn next_shown(
        &mut self,
        alloc: Global,
        changes: &[RouteChange],
        indexes: &[usize],
        opening: Vec<OpeningRoute>,
        shown: Vec<RouteStatus>,
    ) -> Vec<RouteStatus>
        requires empty { (shown.items ≡ []) × (vec_len shown ≡ 0) }
        requires fits { length changes.now ≤ vec_capacity shown }
        requires room { vec_len self.old.routes + length opening.items ≤ vec_capacity self.old.routes }
        ensures routes { self.new.routes.items ≡ self.old.routes.items ++ opened_routes changes.now indexes.now opening.items }
        ensures shown { AreKnown (next_statuses (map Some self.old.shown.items) changes.now indexes.now opening.items) result.items }
    {
        let mut list = shown;
        let mut opening = opening.into_iter();
        let mut rest = changes;
        let mut left = indexes;
        while !rest.is_empty() && !left.is_empty() {
            let status = self.next_status(alloc, rest[0], left[0], &mut opening);
            let Ok(()) = list.push(status) else {
                unreachable!()
            };
            rest = &rest[1..];
            left = &left[1..];
        }
        list
    }

    /// Changes to the routes of a configuration that is in force now. `indexes` has the index of each. Routes that open are
    /// added in their order; routes that aren't in the configuration lose their status. Doesn't allocate: `shown` is the
    /// list that `make_room` returned.
    pub(crate) fn change(
        &mut self,
        alloc: Global,
        changes: &[RouteChange],
        indexes: &[usize],
        opening: Vec<OpeningRoute>,
        shown: Vec<RouteStatus>,
    )
        requires empty { (shown.items ≡ []) × (vec_len shown ≡ 0) }
        requires fits { length changes.now ≤ vec_capacity shown }
        requires room { vec_len self.old.routes + length opening.items ≤ vec_capacity self.old.routes }
        ensures { IsRouted self.old self.new changes.now indexes.now opening.items }
    {
        self.shown = self.next_shown(alloc, changes, indexes, opening, shown);
        place_all(&mut self.routes, indexes);
    }
}

// Replaces the snapshot of the route at a place. Returns the one before; None if no route is there.
fn put_snapshot(
    routes: &mut Vec<WatchedRoute>,
    place: Option<usize>,
    new: RouteSnapshot,
) -> Option<RouteSnapshot>
    ensures routes { routes.new.items ≡ changed_if (with_snapshot new) routes.old.items place }
    ensures result { result ≡ option_map (λ r. r.snapshot) (route_at routes.old.items place) }
{
    let place = place?;
    if place >= routes.len() {
        return None;
    }
    let old = routes[place].snapshot;
    routes[place].snapshot = new;
    Some(old)
}

// Updates the status at a place at this moment, if one is there. Returns what the limits of its route have refused since, if `reserved` or
// `sessions_per_address` refused any.
fn put_status(
    shown: &mut Vec<RouteStatus>,
    place: Option<usize>,
    moment: u64,
    route: &Route,
    sessions: &[Option<SessionView>; MAX_SESSIONS],
    totals: Totals,
) -> Option<LimitCounts>
    ensures shown { shown.new.items ≡ changed_if (status_with moment route.now sessions.now totals) shown.old.items place }
    ensures result { result ≡ grown_of route.now (status_at shown.old.items place) }
{
    let place = place?;
    if place >= shown.len() {
        return None;
    }
    let before = shown[place].limits.unwrap_or(LimitCounts::default());
    note_route(moment, route, sessions, totals, &mut shown[place]);
    grown_limits(before, Some(limits_of(route)))
}

// Looks whether the route of the status at a place is on air at this moment, if one is there and that is expected. Returns the minutes that a
// line is to tell of, if one is due.
fn put_look(
    shown: &mut Vec<RouteStatus>,
    place: Option<usize>,
    sessions: &[Option<SessionView>; MAX_SESSIONS],
    moment: u64,
    stops: bool,
) -> Option<u64>
    ensures shown { shown.new.items ≡ changed_if (with_look stops sessions.now moment) shown.old.items place }
    ensures line { result ≡ absence_of stops sessions.now moment (status_at shown.old.items place) }
{
    let place = place?;
    if place >= shown.len() {
        return None;
    }
    look_at(&mut shown[place], sessions, moment, stops)
}

// Whether the route at a place of the configuration is expected to be on air.
fn is_expected(expected: &[bool], place: usize) -> bool
    ensures { result ≡ is_expected expected.now place }
{
    match expected.get(place) {
        Some(flag) => *flag,
        None => false,
    }
}

// Expects the route of a status to be on air, or doesn't.
fn expect_one(status: &mut RouteStatus, expected: bool)
    ensures { status.new ≡ expecting expected status.old }
{
    status.expectation = expected_if(expected, status.expectation);
}

// Expects the routes to be on air of which a list has that, in their order.
#[tactic(auto, using(crate::proofs::ExpectedRoutes::expecting_none, crate::proofs::ExpectedRoutes::expecting_next))]
fn expect_all(shown: &mut Vec<RouteStatus>, expected: &[bool])
    ensures { shown.new.items ≡ all_expecting expected.now shown.old.items }
{
    for at in 0..shown.len() {
        let flag = is_expected(expected, at);
        expect_one(&mut shown[at], flag);
    }
}

// Returns a number of take-overs and some more.
fn more_take_overs(count: Option<u64>, more: u64) -> Option<u64>
    ensures { result ≡ option_map (λ n. most (n + more)) count }
{
    match count {
        Some(count) => Some(count.saturating_add(more)),
        None => None,
    }
}

// Adds this many take-overs to those of the status at a place, if one is there.
fn add_take_overs(shown: &mut Vec<RouteStatus>, place: Option<usize>, more: u64)
    ensures { shown.new.items ≡ changed_if (with_take_overs more) shown.old.items place }
{
    let Some(place) = place else {
        return;
    };
    if place >= shown.len() {
        return;
    }
    shown[place].take_overs = more_take_overs(shown[place].take_overs, more);
}

// Returns the counts of ends after those between two snapshots.
fn more_ends(ends: Option<EndCounts>, pair: &SnapshotPair) -> Option<EndCounts>
    ensures { result ≡ option_map (λ counts. ends_to counts pair.now.old pair.now.new 120) ends }
{
    match ends {
        Some(counts) => Some(ends_after(counts, pair)),
        None => None,
    }
}

// Counts the ends between two snapshots in the status at a place, if one is there.
fn add_ends(shown: &mut Vec<RouteStatus>, place: Option<usize>, pair: &SnapshotPair)
    ensures { shown.new.items ≡ changed_if (with_ends pair.now) shown.old.items place }
{
    let Some(place) = place else {
        return;
    };
    if place >= shown.len() {
        return;
    }
    shown[place].ends = more_ends(shown[place].ends, pair);
}

// Takes the places of all routes away.
#[tactic(auto, using(crate::proofs::PlacedRoutes::unplaced_none, crate::proofs::PlacedRoutes::unplaced_next, crate::proofs::PlacedRoutes::unplaced_all))]
fn unplace_all(routes: &mut Vec<WatchedRoute>)
    ensures { routes.new.items ≡ map unplaced routes.old.items }
{
    for at in 0..routes.len() {
        routes[at].place = None;
    }
}

// Sets the place of the route with this index, if there is one.
fn put_place(routes: &mut Vec<WatchedRoute>, index: usize, place: usize)
    ensures { routes.new.items ≡ changed_if (placed place) routes.old.items (place_of routes.old.items index) }
{
    let Some(at) = place_of(routes.as_slice(), index) else {
        return;
    };
    if at >= routes.len() {
        return;
    }
    routes[at].place = Some(place);
}

// Sets the places of all routes: these indexes are in the configuration, in this order.
#[tactic(auto, using(crate::proofs::PlacedRoutes::placed_step, crate::proofs::PlacedRoutes::placed_end))]
fn place_all(routes: &mut Vec<WatchedRoute>, indexes: &[usize])
    ensures { routes.new.items ≡ all_placed routes.old.items indexes.now }
{
    unplace_all(routes);
    let mut place = 0usize;
    let mut rest = indexes;
    while !rest.is_empty() {
        put_place(routes, rest[0], place);
        place = place.saturating_add(1);
        rest = &rest[1..];
    }
}
