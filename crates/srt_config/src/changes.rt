//! What a changed configuration requests of a running gateway (our choice).

ghost use Rattle.std.specs.Prelude.{◌≡◌, ℕ, List, ◌++◌, IfOk, OnOk, map, option_map, length};
ghost use Rattle.srt_types.specs.Terms.{terms_of};
ghost use Rattle.srt_lobby.specs.Tables.{index_in};
ghost use Rattle.srt_config.specs.AddressParts.{address_of};
ghost use Rattle.srt_config.specs.SameKeys.{same_if};
ghost use Rattle.srt_config.specs.Config.{settings_of};
ghost use Rattle.srt_config.specs.Changes.{place_of, has_terms, has_schedule, has_keys_at, change_at, change_of, changes_of, gone_at};
ghost use Rattle.srt_config.specs.Changes.{gone_from, same_address, fixed_keys, any_fixed, requested_by, requested};

use crate::config::{BindAddress, Config};
use crate::same_keys::{same_entry, same_schedule};
use indexmap::IndexMap;
use srt_types::{Entry, Schedule};
use std::alloc::{AllocError, Global};

/// The change of a route of a changed configuration. A place is that of a route in the configuration before, counted
/// from 0.
#[derive(Clone, Copy, Debug, PartialEq, Eq)]
pub enum RouteChange {
    /// It stays: the route at this place has its name, and the same value at each key.
    Stays(usize),
    /// The route at this place has its name, and another value at some key: that one closes, and this one opens.
    Reopens(usize),
    /// It opens: no route had its name.
    Opens,
}

/// The keys that can't change while a gateway runs, and whether each has another value.
#[derive(Clone, Copy, Debug, PartialEq, Eq)]
pub struct FixedKeys {
    /// The secret of the handshake cookies.
    pub secret: bool,
    /// The address and UDP port at which datagrams are received.
    pub bind: bool,
    /// The number of threads that serve the routes.
    pub workers: bool,
    /// The address and TCP port of the status page.
    pub status: bool,
}

impl FixedKeys {
    /// Whether one of them has another value, so that the change is refused.
    pub fn any(self) -> bool
        ensures { result ≡ any_fixed self }
    {
        self.secret || self.bind || self.workers || self.status
    }
}

/// The changes that a configuration requests.
#[derive(Drop)]
pub struct Changes {
    /// The keys that differ and can't change.
    pub fixed: FixedKeys,
    /// The change of each of its routes, in its order.
    pub routes: Vec<RouteChange>,
    /// The routes that close since it doesn't have their names: their places in the configuration before, ascending.
    pub gone: Vec<usize>,
}

/// Finds routes of a list by their names.
#[derive(Drop)]
struct Places<'a> {
    entries: &'a [Entry],
    // for each name the place of the first route that has it
    by_name: IndexMap<Vec<u8>, usize>,
    ghost found: { (name : List ℕ) → index_in (λ key. key.items) by_name.entries name ≡ place_of name (map terms_of entries.now) },
}

// Returns the places of these routes by their names. Inserts the last route first, so that the first of two with the same
// name is found. Allocates a copy of each name, and the table.
fn by_name(alloc: Global, entries: &[Entry]) -> Result<IndexMap<Vec<u8>, usize>, AllocError>
    ensures { IfOk result (λ table. (name : List ℕ) → index_in (λ key. key.items) table.entries name ≡ place_of name (map terms_of entries.now)) }
{
    let mut table = IndexMap::new(alloc);
    let mut at = entries.len();
    while at > 0 {
        at -= 1;
        let name = Vec::from_slice(alloc, entries[at].name.as_bytes())?;
        table.insert(name, at)?;
    }
    Ok(table)
}

impl<'a> Places<'a> {
    fn new(alloc: Global, entries: &'a [Entry]) -> Result<Places<'a>, AllocError>
        ensures { IfOk result (λ places. places.entries ≡ entries.entry) }
    {
        let by_name = by_name(alloc, entries)?;
        Ok(Places { entries, by_name })
    }

    // Returns the place of the route of this name, if there is one. One look-up in the hash table.
    fn of(&self, name: &[u8]) -> Option<usize>
        ensures { result ≡ place_of name.now (map terms_of self.now.entries.now) }
    {
        self.by_name.get(name).copied()
    }
}

fn has_terms(entry: &Entry, before: Option<&Entry>) -> bool
    ensures { result ≡ has_terms (terms_of entry.now) (option_map (λ e. terms_of e.now) before.entry) }
{
    match before {
        Some(before) => same_entry(before, entry),
        None => false,
    }
}

pub(crate) fn has_schedule(schedule: Schedule, before: Option<&Schedule>) -> bool
    ensures { result ≡ has_schedule schedule (option_map (λ s. s.now) before.entry) }
{
    match before {
        Some(before) => same_schedule(*before, schedule),
        None => false,
    }
}

pub(crate) fn has_keys_at(before: &Config, place: usize, entry: &Entry, schedule: Schedule) -> bool
    ensures { result ≡ has_keys_at (settings_of before.now) place (terms_of entry.now) schedule }
{
    has_terms(entry, before.entries.get(place))
        && has_schedule(schedule, before.schedules.get(place))
}

fn change_at(
    before: &Config,
    entry: &Entry,
    schedule: Schedule,
    place: Option<usize>,
) -> RouteChange
    ensures { result ≡ change_at (settings_of before.now) (terms_of entry.now) schedule place }
{
    match place {
        Some(place) => {
            if has_keys_at(before, place, entry, schedule) {
                RouteChange::Stays(place)
            } else {
                RouteChange::Reopens(place)
            }
        }
        None => RouteChange::Opens,
    }
}

// Returns the change of a route, which is found by its name among those before.
#[tactic(auto, unfolding(crate::specs::Changes::change_of))]
fn change_of(before: &Config, places: &Places, entry: &Entry, schedule: Schedule) -> RouteChange
    requires { places.now.entries.now ≡ before.now.entries.items }
    ensures { result ≡ change_of (settings_of before.now) (terms_of entry.now) schedule }
{
    let place = places.of(entry.name.as_bytes());
    change_at(before, entry, schedule, place)
}

// Returns the change of each of these routes, which are found by their names among those before. There are as many
// schedules.
#[tactic(auto, using(crate::proofs::Compared::changes_step, crate::proofs::Compared::changes_end))]
fn changes_by(
    alloc: Global,
    before: &Config,
    places: &Places,
    entries: &[Entry],
    schedules: &[Schedule],
) -> Result<Vec<RouteChange>, AllocError>
    requires places { places.now.entries.now ≡ before.now.entries.items }
    requires many { length schedules.now ≡ length entries.now }
    ensures { IfOk result (λ changes. changes.items ≡ changes_of (settings_of before.now) (map terms_of entries.now) schedules.now) }
{
    let mut changes = Vec::with_capacity(alloc, entries.len())?;
    let mut rest = entries;
    let mut later = schedules;
    while !rest.is_empty() {
        changes.push(change_of(before, places, &rest[0], later[0]))?;
        rest = &rest[1..];
        later = &later[1..];
    }
    Ok(changes)
}

// Returns the change of each of these routes. There are as many schedules.
fn changes_of(
    alloc: Global,
    before: &Config,
    entries: &[Entry],
    schedules: &[Schedule],
) -> Result<Vec<RouteChange>, AllocError>
    requires { length schedules.now ≡ length entries.now }
    ensures { IfOk result (λ changes. changes.items ≡ changes_of (settings_of before.now) (map terms_of entries.now) schedules.now) }
{
    let places = Places::new(alloc, before.entries.as_slice())?;
    changes_by(alloc, before, &places, entries, schedules)
}

// Appends the place of a route of this name, unless one of these routes has it too.
fn note_gone(
    places: &Places,
    gone: &mut Vec<usize>,
    place: usize,
    name: &[u8],
) -> Result<(), AllocError>
    ensures { OnOk result (gone.new.items ≡ gone.old.items ++ gone_at place (place_of name.now (map terms_of places.now.entries.now))) }
{
    if places.of(name).is_some() {
        return Ok(());
    }
    gone.push(place)?;
    Ok(())
}

// Returns the places of the routes whose names no route after has, by look-ups of their names.
#[tactic(auto, using(crate::proofs::Compared::gone_step))]
fn gone_by(alloc: Global, before: &[Entry], places: &Places) -> Result<Vec<usize>, AllocError>
    ensures { IfOk result (λ gone. gone.items ≡ gone_from 0 (map terms_of places.now.entries.now) (map terms_of before.now)) }
{
    let mut gone = Vec::with_capacity(alloc, before.len())?;
    let mut rest = before;
    let mut place = 0;
    while !rest.is_empty() {
        note_gone(places, &mut gone, place, rest[0].name.as_bytes())?;
        rest = &rest[1..];
        place += 1;
    }
    Ok(gone)
}

// Returns the places of the routes whose names no route after has.
fn gone(alloc: Global, before: &[Entry], after: &[Entry]) -> Result<Vec<usize>, AllocError>
    ensures { IfOk result (λ gone. gone.items ≡ gone_from 0 (map terms_of after.now) (map terms_of before.now)) }
{
    let places = Places::new(alloc, after)?;
    gone_by(alloc, before, &places)
}

fn same_address(a: BindAddress, b: BindAddress) -> bool
    ensures { result ≡ same_address (address_of a) (address_of b) }
{
    a.ip[..] == b.ip[..] && a.port == b.port
}

fn same_page(a: Option<BindAddress>, b: Option<BindAddress>) -> bool
    ensures { result ≡ same_if same_address (option_map address_of a) (option_map address_of b) }
{
    match a {
        Some(a) => match b {
            Some(b) => same_address(a, b),
            None => false,
        },
        None => b.is_none(),
    }
}

fn fixed_keys(before: &Config, after: &Config) -> FixedKeys
    ensures { result ≡ fixed_keys (settings_of before.now) (settings_of after.now) }
{
    FixedKeys {
        secret: !before.secret.is_same(&after.secret),
        bind: !same_address(before.bind, after.bind),
        workers: before.workers != after.workers,
        status: !same_page(before.status, after.status),
    }
}

/// Returns the changes that a configuration requests of a gateway that runs with the one before: which routes stay, open,
/// close, or close and open again since one of their keys has another value, and which keys differ and can't change. Each
/// route is found by one look-up in a hash table of the other configuration's names. Allocates that table with copies of
/// the names, and the two lists; an error if an allocation fails.
pub fn changes_between(
    alloc: Global,
    before: &Config,
    after: &Config,
) -> Result<Changes, AllocError>
    ensures { IfOk result (λ changes. requested_by changes ≡ requested (settings_of before.now) (settings_of after.now)) }
{
    let routes = changes_of(
        alloc,
        before,
        after.entries.as_slice(),
        after.schedules.as_slice(),
    )?;
    let gone = gone(alloc, before.entries.as_slice(), after.entries.as_slice())?;
    Ok(Changes {
        fixed: fixed_keys(before, after),
        routes,
        gone,
    })
}
