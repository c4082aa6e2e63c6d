//! The defaults of routes: the keys that a route has if its own table lacks them.

ghost use Rattle.std.specs.Prelude.{◌≡◌, is_some, option_map, string_bytes, IfOk, OnOk};
ghost use Rattle.toml.specs.Data.{as_table, get_member};
ghost use Rattle.toml.specs.View.{view, table_view, items_view, array_view};
ghost use Rattle.srt_config.specs.declared.config.keys.Key.TheVariants.{Defaults, Route};
ghost use Rattle.srt_config.specs.KeyTable.{key_name};
ghost use Rattle.srt_config.specs.FirstFault.{seen, Gives};
ghost use Rattle.srt_config.specs.Defaults.{with_missing, completed, completed_if, completed_items, table_at, items_at, completed_by};
ghost use Rattle.srt_config.specs.Defaults.{with_defaults, mode_value, optional_mode_at, numbers_right, limits_right, defaults_right, defaults_at};

use super::access::access_at;
use super::encryption::default_encryption_at;
use super::faults::ConfigFault;
use super::keys::{DEFAULT_KEYS, Key};
use super::routes::read_mode;
use super::rules::callers_at;
use super::typed_values::{found_at, only_known, optional_flag_at, optional_number_at, text_value};
use srt_types::Mode;
use std::alloc::{AllocError, Global};
use toml::{Table, Value};

/// Adds a copy of this key and value, unless the table has the key.
fn add_missing(members: &mut Table, key: &String, value: &Value) -> Result<(), AllocError>
    ensures { OnOk result (table_view members.new ≡ with_missing (string_bytes key.now) (view value.now) (table_view members.old)) }
{
    if members.contains_key(key.as_str()) {
        return Ok(());
    }
    let key = key.clone()?;
    let value = value.clone()?;
    drop(members.insert(key, value)?);
    Ok(())
}

/// Adds copies of those of the defaults that a route's table lacks.
fn completed(route: Table, defaults: &Table) -> Result<Table, AllocError>
    ensures { IfOk result (λ t. table_view t ≡ completed (table_view route) (table_view defaults.now)) }
{
    let mut whole = route;
    for (key, value) in defaults.iter() {
        add_missing(&mut whole, key, value)?;
    }
    Ok(whole)
}

/// Copies a value; if it is a table, with those of the defaults that it lacks.
fn completed_value(value: &Value, defaults: &Table) -> Result<Value, AllocError>
    ensures { IfOk result (λ v. view v ≡ completed_if (as_table (view value.now)) (view value.now) (table_view defaults.now)) }
{
    match value.clone()? {
        Value::Table(route) => Ok(Value::Table(completed(route, defaults)?)),
        other => Ok(other),
    }
}

/// Copies each of these values, with those of the defaults that it lacks.
fn completed_values(
    alloc: Global,
    values: &[Value],
    defaults: &Table,
) -> Result<Vec<Value>, AllocError>
    ensures { IfOk result (λ routes. array_view routes ≡ completed_items (items_view values.now) (table_view defaults.now)) }
{
    let mut routes = Vec::with_capacity(alloc, values.len())?;
    for value in values {
        routes.push(completed_value(value, defaults)?)?;
    }
    Ok(routes)
}

/// Whether a configuration's table has defaults, of whatever kind.
pub(crate) fn table_has_defaults(table: &Table) -> bool
    ensures { result ≡ is_some (get_member (key_name Defaults) (table_view table.now)) }
{
    found_at(table, Key::Defaults).is_some()
}

/// Returns the table at a key; None if there is no value, or none that is a table.
pub(crate) fn table_at(table: &Table, key: Key) -> Option<&Table>
    ensures { option_map (λ t. table_view t.now) result ≡ table_at key (table_view table.now) }
{
    match found_at(table, key) {
        Some(value) => value.as_table(),
        None => None,
    }
}

/// Returns the list at a key; None if there is no value, or none that is a list.
pub(crate) fn items_at(table: &Table, key: Key) -> Option<&[Value]>
    ensures { option_map (λ items. items_view items.now) result ≡ items_at key (table_view table.now) }
{
    match found_at(table, key) {
        Some(value) => match value.as_array() {
            Some(items) => Some(items.as_slice()),
            None => None,
        },
        None => None,
    }
}

/// Copies the routes of a configuration's table with the defaults that they lack; None if it has no defaults, or no list of
/// routes.
fn completed_routes(alloc: Global, table: &Table) -> Result<Option<Vec<Value>>, AllocError>
    ensures { IfOk result (λ r. option_map array_view r ≡ completed_by (table_at Defaults (table_view table.now)) (items_at Route (table_view table.now))) }
{
    let Some(defaults) = table_at(table, Key::Defaults) else {
        return Ok(None);
    };
    match items_at(table, Key::Route) {
        Some(routes) => Ok(Some(completed_values(alloc, routes, defaults)?)),
        None => Ok(None),
    }
}

/// Writes the defaults of a configuration's table into each route that lacks them, so that the table is the one in which
/// every key of a route is written out. A table without defaults stays as it is, and a value that isn't a route's table is
/// left for [`super::read_table`] to refuse. Allocates copies of the routes and their defaults; an error if that fails.
#[tactic(auto, unfolding(crate::specs::Defaults::with_defaults))]
pub fn with_defaults(alloc: Global, table: Table) -> Result<Table, AllocError>
    ensures { IfOk result (λ t. table_view t ≡ with_defaults (table_view table)) }
{
    let Some(routes) = completed_routes(alloc, &table)? else {
        return Ok(table);
    };
    let mut whole = table;
    let key = String::from_str(alloc, Key::Route.name())?;
    drop(whole.insert(key, Value::Array(routes))?);
    Ok(whole)
}

#[tactic(auto, unfolding(crate::specs::Defaults::mode_value))]
fn mode_value(value: &Value) -> Result<Mode, ConfigFault>
    ensures { seen (λ m. m) result ≡ mode_value (view value.now) }
{
    read_mode(text_value(Key::Mode, value)?)
}

#[tactic(auto, unfolding(crate::specs::Defaults::optional_mode_at))]
pub(crate) fn optional_mode_at(table: &Table) -> Result<Option<Mode>, ConfigFault>
    ensures { seen (λ m. m) result ≡ optional_mode_at (table_view table.now) }
{
    match found_at(table, Key::Mode) {
        Some(value) => Ok(Some(mode_value(value)?)),
        None => Ok(None),
    }
}

/// Checks each number of a route and of its schedule by itself.
#[tactic(auto, unfolding(crate::specs::Defaults::numbers_right))]
fn numbers_right(table: &Table) -> Result<(), ConfigFault>
    ensures { seen (λ u. u) result ≡ numbers_right (table_view table.now) }
{
    optional_number_at(table, Key::LatencyMs)?;
    optional_number_at(table, Key::Buffer)?;
    optional_number_at(table, Key::Sessions)?;
    optional_number_at(table, Key::Inbox)?;
    optional_number_at(table, Key::Outbox)?;
    optional_number_at(table, Key::OpenRound)?;
    optional_number_at(table, Key::CloseRound)?;
    Ok(())
}

/// Checks each number of a route's rules by itself.
#[tactic(auto, unfolding(crate::specs::Defaults::limits_right))]
fn limits_right(table: &Table) -> Result<(), ConfigFault>
    ensures { seen (λ u. u) result ≡ limits_right (table_view table.now) }
{
    optional_number_at(table, Key::Reserved)?;
    optional_number_at(table, Key::SessionsPerAddress)?;
    optional_number_at(table, Key::TakeoverMs)?;
    optional_number_at(table, Key::ResendPercent)?;
    Ok(())
}

/// Checks the table of defaults: its least unknown key, and then each of its keys in the order of a route's. How the values
/// go together is checked in each route.
#[tactic(auto, unfolding(crate::specs::Defaults::defaults_right))]
pub(crate) fn defaults_right(alloc: Global, defaults: &Table) -> Result<(), ConfigFault>
    ensures { Gives (λ u. u) result (defaults_right (table_view defaults.now)) }
{
    only_known(alloc, &DEFAULT_KEYS, defaults)?;
    optional_mode_at(defaults)?;
    numbers_right(defaults)?;
    callers_at(defaults)?;
    let _ = access_at(alloc, defaults)?;
    limits_right(defaults)?;
    let _ = default_encryption_at(alloc, defaults)?;
    optional_flag_at(defaults, Key::Expect)?;
    Ok(())
}

/// Returns the table of defaults, or `WrongKind`; None if it is missing.
#[tactic(auto, unfolding(crate::specs::Defaults::defaults_at))]
pub(crate) fn defaults_at(table: &Table) -> Result<Option<&Table>, ConfigFault>
    ensures { seen (option_map (λ t. table_view t.now)) result ≡ defaults_at (table_view table.now) }
{
    match found_at(table, Key::Defaults) {
        Some(value) => match value.as_table() {
            Some(defaults) => Ok(Some(defaults)),
            None => Err(ConfigFault::WrongKind(Key::Defaults)),
        },
        None => Ok(None),
    }
}
