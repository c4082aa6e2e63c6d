//! All faults of a configuration, key by key.

ghost use Rattle.std.specs.Prelude.{◌≡◌, ◌++◌, ◌≤◌, ◌-◌, [], is_none, option_map, IfOk, OnOk};
ghost use Rattle.std.specs.List.{list_any};
ghost use Rattle.std.specs.Str.{bytes_eq};
ghost use Rattle.srt_config.specs.Faults.{key_text};
ghost use Rattle.toml.specs.Data.{get_item, get_member, as_table};
ghost use Rattle.toml.specs.View.{view, table_view, items_view};
ghost use Rattle.srt_config.specs.FirstFault.{seen};
ghost use Rattle.srt_config.specs.Keys.{value_seen};
ghost use Rattle.srt_config.specs.Defaults.{table_at, items_at};
ghost use Rattle.srt_config.specs.declared.config.keys.Key.TheVariants.{Defaults, Route};
ghost use Rattle.srt_config.specs.AllFaults.{fault_if, told, each, name_among, new_name_at, after_opening, close_round_at, most_kept, reserved_at};
ghost use Rattle.srt_config.specs.AllFaults.{place_of, routes_right, routes_checked, top_fault, default_fault, route_fault};
ghost use Rattle.srt_config.specs.AllFaults.{has_fault_at, own_fault, part_fault};
ghost use Rattle.srt_config.specs.AllFaults.{unknown_fault, keys_of, table_of, unknown_faults, part_faults, defaults_faults, names_after};
ghost use Rattle.srt_config.specs.AllFaults.{written_at, table_faults, routes_faults, items_if, faults_seen, all_faults};
ghost use Rattle.srt_config.specs.inside.Sections.{IsFaultOf, fault_seen, members_of, texts_seen, section_seen};

use super::access::{key_at, list_at};
use super::defaults::{defaults_at, items_at, optional_mode_at, table_at};
use super::encryption::{has_passphrase, key_length_at, passphrase_at};
use super::faults::ConfigFault;
use super::keys::{DEFAULT_KEYS, Key, Limits, ROUTE_KEYS, TOP_KEYS};
use super::placed::{Place, PlacedFault};
use super::routes::{are_tables, is_count, mode_at};
use super::rules::{callers_at, most_reserved};
use super::typed_values::{
    is_key, number_at, optional_flag_at, optional_number_at, optional_number_within, text_at,
    value_at,
};
use super::values::{address_at, optional_address_at, secret_at};
use srt_types::is_name;
use std::alloc::{AllocError, Global};
use toml::{Table, Value};

/// The keys above the routes, but that of the routes.
const SETTING_KEYS: [Key; 5] = [
    Key::Secret,
    Key::Bind,
    Key::Workers,
    Key::Status,
    Key::Defaults,
];

/// A route whose keys are checked.
#[derive(Clone, Copy)]
struct RouteSection<'a> {
    /// Its number, counted from 1.
    number: usize,
    /// Its table, with the defaults that it lacks.
    table: &'a Table,
    /// Its table as it is written.
    own: Option<&'a Table>,
    /// The names of the routes before it.
    names: &'a [&'a str],
    /// The faults of the defaults.
    wrong: &'a [PlacedFault],
}

/// A part of a configuration, whose keys are checked one by one.
#[derive(Clone, Copy)]
enum Section<'a> {
    /// The keys above the routes.
    Above(&'a Table),
    /// The table of defaults.
    Defaults(&'a Table),
    /// A route.
    Route(RouteSection<'a>),
}

/// The fault of a step, if it has one; an error if an allocation failed.
fn fault_of<T: Drop>(step: Result<T, ConfigFault>) -> Result<Option<ConfigFault>, AllocError>
    ensures { IfOk result (IsFaultOf step) }
{
    match step {
        Ok(_) => Ok(None),
        Err(ConfigFault::OutOfMemory) => Err(AllocError),
        Err(fault) => Ok(Some(fault)),
    }
}

/// Checks the list of the routes as a whole.
fn check_values(values: &[Value]) -> Result<(), ConfigFault>
    ensures { seen (λ u. u) result ≡ routes_right (items_view values.now) }
{
    if !are_tables(values) {
        return Err(ConfigFault::WrongKind(Key::Route));
    }
    if !is_count(values) {
        return Err(ConfigFault::OutOfRange(Key::Route));
    }
    Ok(())
}

/// Checks the routes of a configuration's table as a whole.
#[tactic(auto, unfolding(crate::specs::AllFaults::routes_checked))]
fn check_routes(table: &Table) -> Result<(), ConfigFault>
    ensures { seen (λ u. u) result ≡ routes_checked (table_view table.now) }
{
    match value_at(table, Key::Route)?.as_array() {
        Some(values) => check_values(values.as_slice()),
        None => Err(ConfigFault::WrongKind(Key::Route)),
    }
}

/// What is wrong with a key above the routes.
fn top_fault(table: &Table, key: Key) -> Result<Option<ConfigFault>, AllocError>
    ensures { IfOk result (λ found. fault_seen found ≡ top_fault (table_view table.now) key) }
{
    match key {
        Key::Secret => fault_of(secret_at(table)),
        Key::Bind => fault_of(address_at(table, key)),
        Key::Workers => fault_of(number_at(table, key)),
        Key::Status => fault_of(optional_address_at(table, key)),
        Key::Defaults => fault_of(defaults_at(table)),
        Key::Route => fault_of(check_routes(table)),
        _ => Ok(None),
    }
}

/// What is wrong with a key that may be missing, by itself.
fn default_fault(alloc: Global, table: &Table, key: Key) -> Result<Option<ConfigFault>, AllocError>
    ensures { IfOk result (λ found. fault_seen found ≡ default_fault (table_view table.now) key) }
{
    match key {
        Key::Mode => fault_of(optional_mode_at(table)),
        Key::Callers => fault_of(callers_at(table)),
        Key::PublishFrom => fault_of(list_at(alloc, table, Key::PublishFrom)),
        Key::RequestFrom => fault_of(list_at(alloc, table, Key::RequestFrom)),
        Key::PublishKey => fault_of(key_at(alloc, table, Key::PublishKey)),
        Key::RequestKey => fault_of(key_at(alloc, table, Key::RequestKey)),
        Key::PublishPassphrase => fault_of(passphrase_at(alloc, table, Key::PublishPassphrase)),
        Key::RequestPassphrase => fault_of(passphrase_at(alloc, table, Key::RequestPassphrase)),
        Key::Pbkeylen => fault_of(key_length_at(true, table)),
        Key::Expect => fault_of(optional_flag_at(table, Key::Expect)),
        _ => fault_of(optional_number_at(table, key)),
    }
}

/// Whether one of these names is this one.
fn is_among(names: &[&str], text: &str) -> bool
    ensures { result ≡ list_any (λ name. bytes_eq name.now text.now) names.now }
{
    names.iter().any(|name| *name == text)
}

/// Checks a name: `BadName` if it has a wrong form, else `RepeatedName` if it is one of these.
fn name_among<'a>(names: &[&str], text: &'a str) -> Result<&'a str, ConfigFault>
    ensures { seen (λ t. t.now) result ≡ name_among (texts_seen names.now) text.now }
{
    if !is_name(text.as_bytes()) {
        return Err(ConfigFault::BadName);
    }
    if is_among(names, text) {
        return Err(ConfigFault::RepeatedName);
    }
    Ok(text)
}

/// Checks the name of a route, after routes of these names.
#[tactic(auto, unfolding(crate::specs::AllFaults::new_name_at))]
fn new_name_at<'a>(names: &[&str], table: &'a Table) -> Result<&'a str, ConfigFault>
    ensures { seen (λ t. t.now) result ≡ new_name_at (texts_seen names.now) (table_view table.now) }
{
    name_among(names, text_at(table, Key::Name)?)
}

/// The first round in which a route may close, if it opens in this one.
fn after_opening(opens: Result<Option<u32>, ConfigFault>) -> usize
    ensures { result ≡ after_opening (seen (λ n. n) opens) }
{
    match opens {
        Ok(opens) => opens.unwrap_or(0) as usize + 1,
        Err(_) => 1,
    }
}

/// Returns the round in which the route of a table closes, after it opens, if that round is right.
#[tactic(auto, unfolding(crate::specs::AllFaults::close_round_at))]
fn close_round_at(table: &Table) -> Result<Option<u32>, ConfigFault>
    ensures { seen (λ n. n) result ≡ close_round_at (table_view table.now) }
{
    let later = Limits {
        least: after_opening(optional_number_at(table, Key::OpenRound)),
        most: Key::CloseRound.limits().most,
    };
    optional_number_within(table, Key::CloseRound, later)
}

/// The most slots that a route of this number of sessions may keep for publishers.
fn most_kept(sessions: Result<u32, ConfigFault>) -> usize
    ensures value { result ≡ most_kept (seen (λ n. n) sessions) }
    ensures few { result ≤ 2 }
{
    match sessions {
        Ok(sessions) => most_reserved(sessions),
        Err(_) => Key::Reserved.limits().most,
    }
}

/// Returns the slots that the route of a table keeps for publishers, fewer than its sessions, if their number is right.
#[tactic(auto, unfolding(crate::specs::AllFaults::reserved_at))]
fn reserved_at(table: &Table) -> Result<Option<u32>, ConfigFault>
    ensures { seen (λ n. n) result ≡ reserved_at (table_view table.now) }
{
    let kept = Limits {
        least: Key::Reserved.limits().least,
        most: most_kept(number_at(table, Key::Sessions)),
    };
    optional_number_within(table, Key::Reserved, kept)
}

/// What is wrong with a key of a route, after routes of these names.
fn route_fault(
    alloc: Global,
    names: &[&str],
    table: &Table,
    key: Key,
) -> Result<Option<ConfigFault>, AllocError>
    ensures { IfOk result (λ found. fault_seen found ≡ route_fault (texts_seen names.now) (table_view table.now) key) }
{
    match key {
        Key::Name => fault_of(new_name_at(names, table)),
        Key::Mode => fault_of(mode_at(table)),
        Key::LatencyMs | Key::Buffer | Key::Sessions | Key::Inbox | Key::Outbox => {
            fault_of(number_at(table, key))
        }
        Key::CloseRound => fault_of(close_round_at(table)),
        Key::Reserved => fault_of(reserved_at(table)),
        Key::Pbkeylen => fault_of(key_length_at(has_passphrase(table), table)),
        _ => default_fault(alloc, table, key),
    }
}

/// Whether one of these faults is about this key.
fn any_at(key: &str, faults: &[PlacedFault]) -> bool
    ensures { result ≡ list_any (λ it. bytes_eq (key_text it.fault) key.now) faults.now }
{
    faults.iter().any(|it| it.fault.key() == key)
}

/// The same, of what the faults are.
fn has_fault_at(key: &str, faults: &[PlacedFault]) -> bool
    ensures { result ≡ has_fault_at key.now (faults_seen faults.now) }
{
    any_at(key, faults)
}

fn value_of<'a>(table: &'a Table, key: &str) -> Option<&'a Value>
    ensures { option_map value_seen result ≡ get_member key.now (table_view table.now) }
{
    table.get(key)
}

/// Whether a route's table as it is written has no such key.
fn lacks(own: Option<&Table>, key: &str) -> bool
    ensures { result ≡ is_none (get_member key.now (members_of own.entry)) }
{
    match own {
        Some(table) => value_of(table, key).is_none(),
        None => true,
    }
}

/// The fault of a route, unless it is at a key that the route has from the defaults, and these have a fault there.
fn own_fault(
    own: Option<&Table>,
    wrong: &[PlacedFault],
    found: Option<ConfigFault>,
) -> Option<ConfigFault>
    ensures { fault_seen result ≡ own_fault (members_of own.entry) (faults_seen wrong.now) (fault_seen found) }
{
    let Some(fault) = found else {
        return None;
    };
    if has_fault_at(fault.key(), wrong) && lacks(own, fault.key()) {
        return None;
    }
    Some(fault)
}

/// The number of the part, for a person.
fn place_of(section: Section<'_>) -> Place
    ensures { result ≡ place_of (section_seen section.entry) }
{
    match section {
        Section::Above(_) => Place::Above,
        Section::Defaults(_) => Place::Defaults,
        Section::Route(route) => Place::Route(route.number),
    }
}

/// What is wrong with a key of a part.
fn section_fault(
    alloc: Global,
    section: Section<'_>,
    key: Key,
) -> Result<Option<ConfigFault>, AllocError>
    ensures { IfOk result (λ found. fault_seen found ≡ part_fault (section_seen section.entry) key) }
{
    match section {
        Section::Above(table) => top_fault(table, key),
        Section::Defaults(table) => default_fault(alloc, table, key),
        Section::Route(route) => {
            let found = route_fault(alloc, route.names, route.table, key)?;
            Ok(own_fault(route.own, route.wrong, found))
        }
    }
}

/// That a key of a part is unknown. Allocates its name.
fn unknown_fault(
    alloc: Global,
    section: Section<'_>,
    text: &str,
) -> Result<Option<ConfigFault>, AllocError>
    ensures { IfOk result (λ found. fault_seen found ≡ unknown_fault (section_seen section.entry) text.now) }
{
    let fault = Some(ConfigFault::UnknownKey(String::from_str(alloc, text)?));
    match section {
        Section::Above(_) | Section::Defaults(_) => Ok(fault),
        Section::Route(route) => Ok(own_fault(route.own, route.wrong, fault)),
    }
}

fn keys_of(section: Section<'_>) -> &'static [Key]
    ensures { result.now ≡ keys_of (section_seen section.entry) }
{
    match section {
        Section::Above(_) => &TOP_KEYS,
        Section::Defaults(_) => &DEFAULT_KEYS,
        Section::Route(_) => &ROUTE_KEYS,
    }
}

fn table_of(section: Section<'_>) -> &Table
    ensures { table_view result.now ≡ table_of (section_seen section.entry) }
{
    match section {
        Section::Above(table) | Section::Defaults(table) => table,
        Section::Route(route) => route.table,
    }
}

fn push(
    list: &mut Vec<PlacedFault>,
    place: Place,
    found: Option<ConfigFault>,
) -> Result<(), AllocError>
    ensures { OnOk result (faults_seen list.new.items ≡ faults_seen list.old.items ++ told place (fault_seen found)) }
{
    if let Some(fault) = found {
        list.push(PlacedFault { fault, place })?;
    }
    Ok(())
}

/// Adds the faults of the unknown keys of a part.
#[tactic(auto, unfolding(crate::specs::AllFaults::unknown_faults))]
fn push_unknown(
    alloc: Global,
    list: &mut Vec<PlacedFault>,
    section: Section<'_>,
) -> Result<(), AllocError>
    ensures { OnOk result (faults_seen list.new.items ≡ faults_seen list.old.items ++ unknown_faults (section_seen section.entry)) }
{
    let keys = keys_of(section);
    for key in table_of(section).keys() {
        if !is_key(keys, key.as_str()) {
            let found = unknown_fault(alloc, section, key.as_str())?;
            push(list, place_of(section), found)?;
        }
    }
    Ok(())
}

/// Adds what is wrong with each of these keys of a part.
fn push_keys(
    alloc: Global,
    list: &mut Vec<PlacedFault>,
    section: Section<'_>,
    keys: &[Key],
) -> Result<(), AllocError>
    ensures { OnOk result (faults_seen list.new.items
        ≡ faults_seen list.old.items ++ each (place_of (section_seen section.entry)) (part_fault (section_seen section.entry)) keys.now) }
{
    for at in 0..keys.len() {
        let found = section_fault(alloc, section, keys[at])?;
        push(list, place_of(section), found)?;
    }
    Ok(())
}

/// Adds the faults of a part: those of its unknown keys, and then of these keys.
fn push_part(
    alloc: Global,
    list: &mut Vec<PlacedFault>,
    section: Section<'_>,
    keys: &[Key],
) -> Result<(), AllocError>
    ensures { OnOk result (faults_seen list.new.items ≡ faults_seen list.old.items ++ part_faults (section_seen section.entry) keys.now) }
{
    push_unknown(alloc, list, section)?;
    push_keys(alloc, list, section, keys)
}

/// Adds the faults of the defaults, if there are any.
fn push_defaults(
    alloc: Global,
    list: &mut Vec<PlacedFault>,
    table: &Table,
) -> Result<(), AllocError>
    ensures { OnOk result (faults_seen list.new.items ≡ faults_seen list.old.items ++ defaults_faults (table_at Defaults (table_view table.now))) }
{
    match table_at(table, Key::Defaults) {
        Some(defaults) => push_part(alloc, list, Section::Defaults(defaults), &DEFAULT_KEYS),
        None => Ok(()),
    }
}

/// Returns the value of this number, counted from 1, in a list.
#[tactic(auto, using(toml::proofs::Views::get_item_within, toml::proofs::Views::get_item_past))]
fn value_of_number(values: &[Value], number: usize) -> Option<&Value>
    ensures { option_map value_seen result ≡ get_item (number - 1) (items_view values.now) }
{
    let at = number.saturating_sub(1);
    if at < values.len() {
        Some(&values[at])
    } else {
        None
    }
}

/// Returns the table of the route of this number as it is written.
fn written_at(written: &[Value], number: usize) -> Option<&Table>
    ensures { members_of result ≡ written_at (items_view written.now) number }
{
    match value_of_number(written, number) {
        Some(value) => value.as_table(),
        None => None,
    }
}

/// What the routes are checked with, beside their tables.
#[derive(Clone, Copy)]
struct RoutesContext<'a> {
    /// The routes as they are written.
    written: &'a [Value],
    /// The faults of the defaults.
    wrong: &'a [PlacedFault],
}

/// Adds the faults of the route of this number, after routes of these names, and its name to them.
fn push_route<'a>(
    alloc: Global,
    list: &mut Vec<PlacedFault>,
    names: &mut Vec<&'a str>,
    context: RoutesContext<'_>,
    number: usize,
    value: &'a Value,
) -> Result<(), AllocError>
    ensures list { OnOk result (faults_seen list.new.items ≡ faults_seen list.old.items
        ++ table_faults (items_view context.entry.written.now) (faults_seen context.entry.wrong.now) number
        (texts_seen names.old.items) (as_table (view value.now))) }
    ensures names { OnOk result (texts_seen names.new.items ≡ names_after (texts_seen names.old.items) (as_table (view value.now))) }
{
    let Some(table) = value.as_table() else {
        return Ok(());
    };
    let route = RouteSection {
        number,
        table,
        own: written_at(context.written, number),
        names: names.as_slice(),
        wrong: context.wrong,
    };
    push_part(alloc, list, Section::Route(route), &ROUTE_KEYS)?;
    if let Ok(name) = text_at(table, Key::Name) {
        names.push(name)?;
    }
    Ok(())
}

/// Adds the faults of each of these routes.
fn push_routes(
    alloc: Global,
    list: &mut Vec<PlacedFault>,
    context: RoutesContext<'_>,
    values: &[Value],
) -> Result<(), AllocError>
    ensures { OnOk result (faults_seen list.new.items ≡ faults_seen list.old.items
        ++ routes_faults (items_view context.entry.written.now) (faults_seen context.entry.wrong.now) 1 [] (items_view values.now)) }
{
    let mut names = Vec::new(alloc);
    let mut rest = values;
    let mut number = 1usize;
    while !rest.is_empty() {
        push_route(alloc, list, &mut names, context, number, &rest[0])?;
        rest = &rest[1..];
        number += 1;
    }
    Ok(())
}

/// Returns the routes of a table; none if they aren't a list.
fn routes_or_none(table: &Table) -> &[Value]
    ensures { items_view result.now ≡ items_if (items_at Route (table_view table.now)) }
{
    match items_at(table, Key::Route) {
        Some(values) => values,
        None => &[],
    }
}

/// Returns all faults of a configuration, key by key: first those above the routes, then those of the defaults, of the routes as a
/// whole, and of each route. The first is the one that [`super::read_table`] returns for the table `whole`, which is the one that is
/// `written` after [`super::with_defaults`]. A route that has a key from the defaults isn't told a fault which these have at it.
/// Allocates the list, the names of unknown keys, and for a while the routes' names; an error if that fails.
#[tactic(auto, unfolding(crate::specs::AllFaults::all_faults))]
pub fn all_faults(
    alloc: Global,
    written: &Table,
    whole: &Table,
) -> Result<Vec<PlacedFault>, AllocError>
    ensures { IfOk result (λ list. faults_seen list.items ≡ all_faults (table_view written.now) (table_view whole.now)) }
{
    let mut wrong = Vec::new(alloc);
    push_defaults(alloc, &mut wrong, whole)?;
    let mut list = Vec::new(alloc);
    push_part(alloc, &mut list, Section::Above(whole), &SETTING_KEYS)?;
    push_defaults(alloc, &mut list, whole)?;
    push_keys(alloc, &mut list, Section::Above(whole), &[Key::Route])?;
    let context = RoutesContext {
        written: routes_or_none(written),
        wrong: wrong.as_slice(),
    };
    push_routes(alloc, &mut list, context, routes_or_none(whole))?;
    Ok(list)
}
