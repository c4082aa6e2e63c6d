//! The values in the table of a configuration.

ghost use Rattle.std.specs.Prelude.{◌≡◌, option_map};
ghost use Rattle.std.specs.Prelude.{◌-◌};
ghost use Rattle.toml.specs.Data.{get_item, get_member};
ghost use Rattle.toml.specs.View.{items_view, table_view};
ghost use Rattle.srt_config.specs.KeyTable.{key_name};
ghost use Rattle.srt_config.specs.Keys.{value_seen};
ghost use Rattle.srt_explain.specs.Warnings.{text_in, items_in, members_if, members_in, route_table, lacks};

use srt_config::{Key, read_network};
use toml::{Table, Value};

/// Returns the value at a key.
pub(crate) fn value_at(table: &Table, key: Key) -> Option<&Value>
    ensures { option_map value_seen result ≡ get_member (key_name key) (table_view table.now) }
{
    table.get(key.name())
}

/// Returns the text at a key; None if there is no value, or none that is a text.
pub(crate) fn text_at(table: &Table, key: Key) -> Option<&str>
    ensures { option_map (λ t. t.now) result ≡ text_in (get_member (key_name key) (table_view table.now)) }
{
    match value_at(table, key) {
        Some(value) => value.as_str(),
        None => None,
    }
}

/// Returns the number at a key; None if there is no value, or none that is a whole number.
pub(crate) fn number_at(table: &Table, key: Key) -> Option<i64> {
    match value_at(table, key) {
        Some(value) => value.as_integer(),
        None => None,
    }
}

/// Returns the routes of a configuration's table; none if they aren't a list.
pub(crate) fn routes_of(table: &Table) -> &[Value]
    ensures { items_view result.now ≡ items_in (get_member (key_name Key.Route) (table_view table.now)) }
{
    match value_at(table, Key::Route) {
        Some(value) => match value.as_array() {
            Some(routes) => routes.as_slice(),
            None => &[],
        },
        None => &[],
    }
}

/// Returns the members of the list at a key; none if it isn't one.
pub(crate) fn members_at(table: &Table, key: Key) -> &[Value] {
    match value_at(table, key) {
        Some(value) => match value.as_array() {
            Some(members) => members.as_slice(),
            None => &[],
        },
        None => &[],
    }
}

/// Returns the place among these values of the first that isn't a text.
pub(crate) fn first_no_text(members: &[Value]) -> Option<usize> {
    for at in 0..members.len() {
        if !members[at].is_str() {
            return Some(at);
        }
    }
    None
}

/// Whether a value is a text that is a network.
fn is_network(value: &Value) -> bool {
    match value.as_str() {
        Some(text) => read_network(text.as_bytes()).is_some(),
        None => false,
    }
}

/// Returns the place among these values of the first that isn't a network.
pub(crate) fn first_no_network(members: &[Value]) -> Option<usize> {
    for at in 0..members.len() {
        if !is_network(&members[at]) {
            return Some(at);
        }
    }
    None
}

/// Returns the round in which a route's table opens it; 0 if it has none.
pub(crate) fn opening_of(route: &Table) -> i64 {
    number_at(route, Key::OpenRound).unwrap_or(0)
}

/// Returns the number of sessions of a route's table; 0 if it has none.
pub(crate) fn sessions_of(route: &Table) -> i64 {
    number_at(route, Key::Sessions).unwrap_or(0)
}

/// Returns the text at a key; empty if there is no value, or none that is a text.
pub(crate) fn text_or_empty(table: &Table, key: Key) -> &str {
    text_at(table, key).unwrap_or("")
}

/// Returns the value of this number, counted from 1, in a list.
#[tactic(auto, using(toml::proofs::Views::get_item_within, toml::proofs::Views::get_item_past))]
fn value_of_number(values: &[Value], number: usize) -> Option<&Value>
    ensures { option_map value_seen result ≡ get_item (number - 1) (items_view values.now) }
{
    let at = number.saturating_sub(1);
    if at < values.len() {
        Some(&values[at])
    } else {
        None
    }
}

/// Returns the table that a value is.
fn table_of(value: Option<&Value>) -> Option<&Table>
    ensures { members_if (option_map (λ t. table_view t.now) result) ≡ members_in (option_map value_seen value.entry) }
{
    match value {
        Some(route) => route.as_table(),
        None => None,
    }
}

/// Returns the table of the route of this number, counted from 1.
pub(crate) fn route_at(table: &Table, number: usize) -> Option<&Table>
    ensures { members_if (option_map (λ t. table_view t.now) result) ≡ route_table (table_view table.now) number }
{
    table_of(value_of_number(routes_of(table), number))
}

/// Whether the table of the route of this number has no such key.
pub(crate) fn lacks(table: &Table, number: usize, key: Key) -> bool
    ensures { result ≡ lacks key (route_table (table_view table.now) number) }
{
    match route_at(table, number) {
        Some(route) => value_at(route, key).is_none(),
        None => true,
    }
}

/// Returns the table of defaults; None if there is none.
pub(crate) fn defaults_of(table: &Table) -> Option<&Table> {
    table_of(value_at(table, Key::Defaults))
}

/// Returns the routes before the one of this number, counted from 1.
pub(crate) fn routes_before(table: &Table, number: usize) -> &[Value] {
    let routes = routes_of(table);
    &routes[..number.saturating_sub(1).min(routes.len())]
}

/// Returns the name in a value, if it is a table that has one.
fn name_of(value: &Value) -> Option<&str> {
    match value.as_table() {
        Some(route) => text_at(route, Key::Name),
        None => None,
    }
}

/// Returns the place among these routes of the first that has this name.
pub(crate) fn first_named(routes: &[Value], name: &str) -> Option<usize> {
    for at in 0..routes.len() {
        if let Some(text) = name_of(&routes[at]) {
            if text == name {
                return Some(at);
            }
        }
    }
    None
}
