//! Reads a configuration.

ghost use Rattle.std.specs.Prelude.{◌≡◌, ◌≤◌, length, true, Ok, Some, IfOk, IsUtf8, option_map};
ghost use Rattle.toml.specs.Parse.{parse_document};
ghost use Rattle.toml.specs.View.{table_view};
ghost use Rattle.srt_config.specs.declared.config.placed.Place.TheVariants as place;
ghost use Rattle.srt_config.specs.Defaults.{right_if_given};
ghost use Rattle.srt_config.specs.Size.{has_defaults, is_within_limits};
ghost use Rattle.srt_config.specs.FirstFault.{Gives};
ghost use Rattle.srt_config.specs.FaultPlace.{fault_place, GivesAt};
ghost use Rattle.srt_config.specs.Config.{settings_at, settings_of, config_in};

use super::Config;
use super::defaults::{defaults_at, defaults_right, table_has_defaults, with_defaults};
use super::faults::ConfigFault;
use super::keys::{Key, TOP_KEYS};
use super::placed::{Place, PlacedFault};
use super::routes::routes_at;
use super::typed_values::{number_at, only_known};
use super::values::{address_at, optional_address_at, secret_at};
use srt_types::product_limits::{MAX_CONFIG, MAX_CONFIG_WITH_DEFAULTS};
use std::alloc::{AllocError, Global};
use std::str;
use toml::Table;

/// Checks the table of defaults, if there is one.
fn check_defaults(alloc: Global, defaults: Option<&Table>) -> Result<(), PlacedFault>
    ensures { GivesAt (λ u. u) result (right_if_given (option_map (λ t. table_view t.now) defaults.entry)) place.Defaults }
{
    let Some(defaults) = defaults else {
        return Ok(());
    };
    match defaults_right(alloc, defaults) {
        Ok(()) => Ok(()),
        Err(fault) => Err(PlacedFault {
            fault,
            place: Place::Defaults,
        }),
    }
}

/// Reads a configuration from the table that is its text, after [`with_defaults`], or returns its first fault, as
/// [`read_config`] does, with the part that has it. Allocates the entries and their names; if an allocation fails, the result
/// can be `OutOfMemory` instead of any other.
#[tactic(auto, unfolding(crate::specs::Config::settings_at, crate::specs::FaultPlace::fault_place))]
pub fn read_table(alloc: Global, table: &Table) -> Result<Config, PlacedFault>
    ensures { GivesAt settings_of result (settings_at (table_view table.now)) (fault_place (table_view table.now)) }
{
    only_known(alloc, &TOP_KEYS, table)?;
    let secret = secret_at(table)?;
    let bind = address_at(table, Key::Bind)?;
    let workers = number_at(table, Key::Workers)?;
    let status = optional_address_at(table, Key::Status)?;
    check_defaults(alloc, defaults_at(table)?)?;
    let routes = routes_at(alloc, table)?;
    Ok(Config {
        secret,
        bind,
        workers,
        status,
        entries: routes.entries,
        schedules: routes.schedules,
        expected: routes.expected,
    })
}

/// Reads the configuration in this table, with its defaults.
fn read_whole(alloc: Global, table: Table) -> Result<Config, ConfigFault>
    ensures { Gives settings_of result (config_in (Some (table_view table))) }
{
    let Ok(table) = with_defaults(alloc, table) else {
        return Err(ConfigFault::OutOfMemory);
    };
    match read_table(alloc, &table) {
        Ok(config) => Ok(config),
        Err(placed) => Err(placed.fault),
    }
}

/// Reads a configuration, or returns its first fault: that the text isn't TOML; the least unknown key; then what is
/// wrong with `secret`, `bind`, `workers`, `status`, `defaults` and `route`; then for each route its least unknown key and its
/// keys in the order of [`Key`]. A route has the defaults that its own table lacks. Allocates the table, copies of routes with
/// defaults, the entries and their names; if an allocation fails, the result can be `OutOfMemory` instead of any other.
pub fn read_config(alloc: Global, text: &str) -> Result<Config, ConfigFault>
    ensures { Gives settings_of result (config_in (parse_document text.now)) }
{
    match toml::table_from_str(alloc, text) {
        Ok(table) => read_whole(alloc, table),
        Err(e) if e.is_memory() => Err(ConfigFault::OutOfMemory),
        Err(_) => Err(ConfigFault::Toml),
    }
}

// Whether these bytes are the text of a table that has defaults, of whatever kind. Allocates the table.
fn has_defaults(alloc: Global, bytes: &[u8]) -> Result<bool, AllocError>
    ensures found { IfOk result (λ found. found ≡ true → has_defaults (parse_document bytes.now) ≡ true) }
    ensures sure { IsUtf8 bytes.now → IfOk result (λ found. found ≡ has_defaults (parse_document bytes.now)) }
{
    let Ok(text) = str::from_utf8(bytes) else {
        return Ok(false);
    };
    match toml::table_from_str(alloc, text) {
        Ok(table) => Ok(table_has_defaults(&table)),
        Err(error) if error.is_memory() => Err(AllocError),
        Err(_) => Ok(false),
    }
}

/// Whether a configuration's file may have these bytes: at most 65,536, or 1,048,576 if they are a table that has defaults.
/// Allocates the table of more than 65,536 bytes; the only error is out of memory.
pub fn is_within_limits(alloc: Global, bytes: &[u8]) -> Result<bool, AllocError>
    ensures within { IfOk result (λ fits. fits ≡ true → is_within_limits bytes.now ≡ true) }
    ensures sure { IsUtf8 bytes.now → IfOk result (λ fits. fits ≡ is_within_limits bytes.now) }
    ensures few { length bytes.now ≤ 65_536 → result ≡ Ok true }
{
    if bytes.len() <= MAX_CONFIG as usize {
        return Ok(true);
    }
    if bytes.len() > MAX_CONFIG_WITH_DEFAULTS as usize {
        return Ok(false);
    }
    has_defaults(alloc, bytes)
}
