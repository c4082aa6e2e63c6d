//! The routes of a configuration.

ghost use Rattle.std.specs.Prelude.{◌≡◌, length, map, string_bytes, true, None, Ok, IfOk};
ghost use Rattle.std.specs.List.{list_all};
ghost use Rattle.toml.specs.View.{view, table_view, items_view};
ghost use Rattle.srt_types.specs.Access.{access_of};
ghost use Rattle.srt_types.specs.Terms.{terms_of};
ghost use Rattle.srt_types.specs.Entries.{is_between};
ghost use Rattle.srt_lobby.specs.Opening.{fault_of};
ghost use Rattle.srt_config.specs.declared.config.placed.Place.TheVariants as place;
ghost use Rattle.srt_config.specs.FirstFault.{seen, Gives};
ghost use Rattle.srt_config.specs.FaultPlace.{faulty_from, place_in, routes_place, GivesAt};
ghost use Rattle.srt_config.specs.Routes.{name_in, name_at, mode_in, mode_at, numbers_at, schedule_at, closes_later, terms_with, with_access};
ghost use Rattle.srt_config.specs.Routes.{with_rules, route_at, no_routes, routes_and, are_tables, count, routes_from, routes_in, routes_at};
ghost use Rattle.srt_config.specs.RouteNumbers.{numbers_of};
ghost use Rattle.srt_config.specs.inside.RouteParts.{route_seen, routes_seen, route_behind};

use super::access::access_at;
use super::encryption::{encrypted, encryption_at};
use super::faults::ConfigFault;
use super::keys::{BUFFER, Key, LIVE, Limits, ROUTE_KEYS};
use super::placed::{Place, PlacedFault};
use super::rules::{callers_at, rules_at};
use super::typed_values::{
    number_at, only_known, optional_flag_at, optional_number_at, optional_number_within, text_at,
    value_at,
};
use srt_lobby::is_taken;
use srt_types::{Access, Callers, Entry, Mode, Rules, Schedule, is_between, is_name};
use std::alloc::Global;
use toml::{Table, Value};

/// Checks a name: `BadName` if it has a wrong form, else `RepeatedName` if an earlier route has it.
#[tactic(auto, unfolding(crate::specs::Routes::name_in))]
fn read_name<'a>(before: &[Entry], text: &'a str) -> Result<&'a str, ConfigFault>
    ensures { seen (λ t. t.now) result ≡ name_in (map terms_of before.now) text.now }
{
    if !is_name(text.as_bytes()) {
        return Err(ConfigFault::BadName);
    }
    if is_taken(text.as_bytes(), before) {
        return Err(ConfigFault::RepeatedName);
    }
    Ok(text)
}

#[tactic(auto, unfolding(crate::specs::Routes::name_at))]
fn name_at<'a>(before: &[Entry], table: &'a Table) -> Result<&'a str, ConfigFault>
    ensures { seen (λ t. t.now) result ≡ name_at (map terms_of before.now) (table_view table.now) }
{
    read_name(before, text_at(table, Key::Name)?)
}

#[tactic(auto, unfolding(crate::specs::Routes::mode_in))]
pub(crate) fn read_mode(text: &str) -> Result<Mode, ConfigFault>
    ensures { seen (λ m. m) result ≡ mode_in text.now }
{
    if text == LIVE {
        return Ok(Mode::Live);
    }
    if text == BUFFER {
        return Ok(Mode::Buffer);
    }
    Err(ConfigFault::OutOfRange(Key::Mode))
}

#[tactic(auto, unfolding(crate::specs::Routes::mode_at))]
pub(crate) fn mode_at(table: &Table) -> Result<Mode, ConfigFault>
    ensures { seen (λ m. m) result ≡ mode_at (table_view table.now) }
{
    read_mode(text_at(table, Key::Mode)?)
}

/// The numbers of a route. They may be any: whether a route can be opened with them depends on its entry.
#[derive(Clone, Copy)]
pub struct RouteNumbers {
    /// The least delay of a live session, in milliseconds.
    pub latency_ms: u32,
    /// The size of each session's window, in packets.
    pub buffer: u32,
    /// The greatest number of sessions at a time.
    pub sessions: u32,
    /// The capacity of the inbox, in events.
    pub inbox: u32,
    /// The capacity of the outbox, in replies.
    pub outbox: u32,
}

impl RouteNumbers {
    /// Makes the entry with these numbers, and with this name, mode, allowed clients and rules.
    pub fn entry(self, name: String, mode: Mode, access: Access, rules: Rules) -> Entry
        ensures { terms_of result ≡ with_rules rules (with_access (access_of access) (terms_with (string_bytes name) mode (numbers_of self))) }
    {
        Entry {
            name,
            mode,
            latency_ms: self.latency_ms,
            buffer: self.buffer,
            sessions: self.sessions,
            inbox: self.inbox,
            outbox: self.outbox,
            access,
            rules,
        }
    }
}

#[tactic(auto, unfolding(crate::specs::Routes::numbers_at))]
fn numbers_at(table: &Table) -> Result<RouteNumbers, ConfigFault>
    ensures { seen numbers_of result ≡ numbers_at (table_view table.now) }
{
    Ok(RouteNumbers {
        latency_ms: number_at(table, Key::LatencyMs)?,
        buffer: number_at(table, Key::Buffer)?,
        sessions: number_at(table, Key::Sessions)?,
        inbox: number_at(table, Key::Inbox)?,
        outbox: number_at(table, Key::Outbox)?,
    })
}

/// Makes the entry with this name, mode, numbers, allowed clients and rules. Allocates a copy of the name.
fn entry_with(
    alloc: Global,
    name: &str,
    mode: Mode,
    numbers: RouteNumbers,
    access: Access,
    rules: Rules,
) -> Result<Entry, ConfigFault>
    ensures { Gives terms_of result (Ok (with_rules rules (with_access (access_of access) (terms_with name.now mode (numbers_of numbers))))) }
{
    match String::from_str(alloc, name) {
        Ok(name) => Ok(numbers.entry(name, mode, access, rules)),
        Err(_) => Err(ConfigFault::OutOfMemory),
    }
}

#[tactic(auto, unfolding(crate::specs::Routes::schedule_at))]
fn schedule_at(table: &Table) -> Result<Schedule, ConfigFault>
    ensures { seen (λ s. s) result ≡ schedule_at (table_view table.now) }
{
    let open_round = optional_number_at(table, Key::OpenRound)?.unwrap_or(0);
    let later = Limits {
        least: open_round as usize + 1,
        most: Key::CloseRound.limits().most,
    };
    let close_round = optional_number_within(table, Key::CloseRound, later)?;
    Ok(Schedule {
        open_round,
        close_round,
    })
}

/// A route's entry, its schedule, and whether it is expected to be on air.
#[derive(Drop)]
pub(crate) struct ReadRoute {
    /// The entry.
    pub(crate) entry: Entry,
    /// The rounds in which it opens and closes.
    pub(crate) schedule: Schedule,
    /// Whether it is expected to be on air.
    pub(crate) expected: bool,
}

/// The part of a route's table before its lists, keys, rules and encryption.
#[derive(Clone, Copy)]
struct RouteHead<'a> {
    name: &'a str,
    mode: Mode,
    numbers: RouteNumbers,
    schedule: Schedule,
    callers: Callers,
}

/// Reads the lists, keys, rules and encryption of a route's table, after the part before them, and whether it is expected to be on
/// air.
fn route_behind(alloc: Global, head: RouteHead<'_>, table: &Table) -> Result<ReadRoute, ConfigFault>
    ensures { Gives route_seen result
        (route_behind head.entry.name.now head.entry.mode (numbers_of head.entry.numbers) head.entry.schedule head.entry.callers (table_view table.now)) }
{
    let access = access_at(alloc, table)?;
    let rules = rules_at(head.numbers.sessions, head.callers, table)?;
    let encryption = encryption_at(alloc, table)?;
    let expected = optional_flag_at(table, Key::Expect)?.unwrap_or(false);
    let access = encrypted(access, encryption);
    let entry = entry_with(alloc, head.name, head.mode, head.numbers, access, rules)?;
    Ok(ReadRoute {
        entry,
        schedule: head.schedule,
        expected,
    })
}

/// Reads a route's table, after the routes `before` it.
#[tactic(auto, unfolding(crate::specs::Routes::route_at))]
fn route_at(alloc: Global, before: &[Entry], table: &Table) -> Result<ReadRoute, ConfigFault>
    ensures { Gives route_seen result (route_at (map terms_of before.now) (table_view table.now)) }
{
    only_known(alloc, &ROUTE_KEYS, table)?;
    let name = name_at(before, table)?;
    let mode = mode_at(table)?;
    let numbers = numbers_at(table)?;
    let schedule = schedule_at(table)?;
    let callers = callers_at(table)?.unwrap_or(Callers::Draft);
    let head = RouteHead {
        name,
        mode,
        numbers,
        schedule,
        callers,
    };
    route_behind(alloc, head, table)
}

#[tactic(auto, using(crate::proofs::RouteItems::items_step))]
pub(crate) fn are_tables(values: &[Value]) -> bool
    ensures { result ≡ are_tables (items_view values.now) }
{
    let mut rest = values;
    while !rest.is_empty() {
        if rest[0].as_table().is_none() {
            return false;
        }
        rest = &rest[1..];
    }
    true
}

pub(crate) fn is_count(values: &[Value]) -> bool
    ensures { result ≡ is_between 1 511 (count (items_view values.now)) }
{
    let limits = Key::Route.limits();
    is_between(limits.least, limits.most, values.len())
}

/// The routes of a configuration, in the order of their indexes.
#[derive(Drop)]
pub(crate) struct ReadRoutes {
    /// The entries.
    pub(crate) entries: Vec<Entry>,
    /// The schedules, one for each entry.
    pub(crate) schedules: Vec<Schedule>,
    /// Whether each is expected to be on air.
    pub(crate) expected: Vec<bool>,
}

/// Reads these values as routes; `WrongKind` if one isn't a table, else `OutOfRange` if there are none or more than
/// 511.
#[tactic(auto, unfolding(crate::specs::Routes::routes_in))]
fn read_routes(alloc: Global, values: &[Value]) -> Result<ReadRoutes, PlacedFault>
    ensures { GivesAt routes_seen result (routes_in (items_view values.now)) (place_in (items_view values.now)) }
{
    if !are_tables(values) {
        return Err(PlacedFault {
            fault: ConfigFault::WrongKind(Key::Route),
            place: Place::Above,
        });
    }
    if !is_count(values) {
        return Err(PlacedFault {
            fault: ConfigFault::OutOfRange(Key::Route),
            place: Place::Above,
        });
    }
    routes_from(alloc, values)
}

/// Reads a value, which is a table, as the next route after these. After an error the routes may be half appended.
fn add_route(alloc: Global, routes: &mut ReadRoutes, value: &Value) -> Result<(), ConfigFault>
    ensures { Gives (λ u. routes_seen routes.new) result (routes_and (routes_seen routes.old) (view value.now)) }
{
    let Some(table) = value.as_table() else {
        return Err(ConfigFault::WrongKind(Key::Route));
    };
    let route = route_at(alloc, routes.entries.as_slice(), table)?;
    if routes.entries.push(route.entry).is_err() {
        return Err(ConfigFault::OutOfMemory);
    }
    if routes.schedules.push(route.schedule).is_err() {
        return Err(ConfigFault::OutOfMemory);
    }
    if routes.expected.push(route.expected).is_err() {
        return Err(ConfigFault::OutOfMemory);
    }
    Ok(())
}

/// Reads these values, which are tables, as routes.
#[tactic(auto, using(crate::proofs::RouteItems::routes_step, crate::proofs::RouteItems::faulty_step))]
fn routes_from(alloc: Global, values: &[Value]) -> Result<ReadRoutes, PlacedFault>
    ensures { GivesAt routes_seen result (routes_from no_routes (items_view values.now)) (place.Route (faulty_from 1 no_routes (items_view values.now))) }
{
    let mut routes = ReadRoutes {
        entries: Vec::new(alloc),
        schedules: Vec::new(alloc),
        expected: Vec::new(alloc),
    };
    let mut rest = values;
    let mut number = 1usize;
    while !rest.is_empty() {
        if let Err(fault) = add_route(alloc, &mut routes, &rest[0]) {
            return Err(PlacedFault {
                fault,
                place: Place::Route(number),
            });
        }
        rest = &rest[1..];
        number += 1;
    }
    Ok(routes)
}

#[tactic(auto, unfolding(crate::specs::Routes::routes_at, crate::specs::FaultPlace::routes_place))]
fn all_routes(alloc: Global, table: &Table) -> Result<ReadRoutes, PlacedFault>
    ensures { GivesAt routes_seen result (routes_at (table_view table.now)) (routes_place (table_view table.now)) }
{
    match value_at(table, Key::Route)?.as_array() {
        Some(values) => read_routes(alloc, values.as_slice()),
        None => Err(PlacedFault {
            fault: ConfigFault::WrongKind(Key::Route),
            place: Place::Above,
        }),
    }
}

/// Returns the routes of a configuration's table.
pub(crate) fn routes_at(alloc: Global, table: &Table) -> Result<ReadRoutes, PlacedFault>
    ensures gives { GivesAt routes_seen result (routes_at (table_view table.now)) (routes_place (table_view table.now)) }
    ensures sound { IfOk result (λ routes. fault_of (map terms_of routes.entries.items) ≡ None) }
    ensures scheduled { IfOk result (λ routes. length routes.schedules.items ≡ length routes.entries.items) }
    ensures later { IfOk result (λ routes. list_all closes_later routes.schedules.items ≡ true) }
    ensures marked { IfOk result (λ routes. length routes.expected.items ≡ length routes.entries.items) }
{
    all_routes(alloc, table)
}
