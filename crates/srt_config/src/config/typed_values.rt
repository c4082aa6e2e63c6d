//! The keys of a table and their values.

ghost use Rattle.std.specs.Prelude.{◌≡◌, ◌<◌, ◌^◌, option_map, true, Some, IfOk, IfSome};
ghost use Rattle.toml.specs.Data.{get_member};
ghost use Rattle.toml.specs.View.{view, table_view};
ghost use Rattle.srt_types.specs.Entries.{is_between};
ghost use Rattle.srt_config.specs.KeyTable.{key_name, limits_of};
ghost use Rattle.srt_config.specs.FirstFault.{seen, Gives};
ghost use Rattle.srt_config.specs.Keys.{is_key, least_unknown, known, value_at, value_seen, text_value, text_at, within, number_value};
ghost use Rattle.srt_config.specs.Keys.{key_number_at, optional_number_at, optional_key_number_at, flag_value, optional_flag_at};

use super::faults::ConfigFault;
use super::keys::{Key, Limits};
use srt_types::is_between;
use std::alloc::Global;
use toml::{Table, Value};

pub(crate) fn is_key(keys: &[Key], text: &str) -> bool
    ensures { result ≡ is_key keys.now text.now }
{
    keys.iter().any(|key| key.name() == text)
}

#[tactic(auto, using(crate::proofs::TableKeys::view_keys))]
fn least_unknown<'a>(keys: &[Key], table: &'a Table) -> Option<&'a str>
    ensures { option_map (λ t. t.now) result ≡ least_unknown keys.now (table_view table.now) }
{
    for key in table.keys() {
        if !is_key(keys, key.as_str()) {
            return Some(key.as_str());
        }
    }
    None
}

/// Checks that a table has no key but these. The error is `UnknownKey` with the first other key in the order of bytes;
/// allocates its name alone.
#[tactic(auto, unfolding(crate::specs::Keys::known))]
pub(crate) fn only_known(alloc: Global, keys: &[Key], table: &Table) -> Result<(), ConfigFault>
    ensures { Gives (λ u. u) result (known keys.now (table_view table.now)) }
{
    let Some(key) = least_unknown(keys, table) else {
        return Ok(());
    };
    match String::from_str(alloc, key) {
        Ok(key) => Err(ConfigFault::UnknownKey(key)),
        Err(_) => Err(ConfigFault::OutOfMemory),
    }
}

/// Returns the value at a key, if there is one.
pub(crate) fn found_at(table: &Table, key: Key) -> Option<&Value>
    ensures { option_map value_seen result ≡ get_member (key_name key) (table_view table.now) }
{
    table.get(key.name())
}

/// Returns the value at a key, or `Missing`.
#[tactic(auto, unfolding(crate::specs::Keys::value_at))]
pub(crate) fn value_at(table: &Table, key: Key) -> Result<&Value, ConfigFault>
    ensures { seen value_seen result ≡ value_at key (table_view table.now) }
{
    match found_at(table, key) {
        Some(value) => Ok(value),
        None => Err(ConfigFault::Missing(key)),
    }
}

/// Returns the text that the value of a key is, or `WrongKind`.
#[tactic(auto, unfolding(crate::specs::Keys::text_value))]
pub(crate) fn text_value(key: Key, value: &Value) -> Result<&str, ConfigFault>
    ensures { seen (λ t. t.now) result ≡ text_value key (view value.now) }
{
    match value.as_str() {
        Some(text) => Ok(text),
        None => Err(ConfigFault::WrongKind(key)),
    }
}

/// Returns the text at a key, or `Missing` or `WrongKind`.
#[tactic(auto, unfolding(crate::specs::Keys::text_at))]
pub(crate) fn text_at(table: &Table, key: Key) -> Result<&str, ConfigFault>
    ensures { seen (λ t. t.now) result ≡ text_at key (table_view table.now) }
{
    text_value(key, value_at(table, key)?)
}

fn within(key: Key, limits: Limits, number: i64) -> Result<u32, ConfigFault>
    requires { limits.most < 2 ^ 32 }
    ensures value { seen (λ n. n) result ≡ within key limits.least limits.most number }
    ensures inside { IfOk result (λ n. is_between limits.least limits.most n ≡ true) }
{
    match u32::try_from(number) {
        Ok(number) if is_between(limits.least, limits.most, number as usize) => Ok(number),
        _ => Err(ConfigFault::OutOfRange(key)),
    }
}

/// Returns the number that the value of a key is, within these limits, or `WrongKind` or `OutOfRange`.
#[tactic(auto, unfolding(crate::specs::Keys::number_value))]
fn number_value(key: Key, limits: Limits, value: &Value) -> Result<u32, ConfigFault>
    requires { limits.most < 2 ^ 32 }
    ensures value { seen (λ n. n) result ≡ number_value key limits.least limits.most (view value.now) }
    ensures inside { IfOk result (λ n. is_between limits.least limits.most n ≡ true) }
{
    match value.as_integer() {
        Some(number) => within(key, limits, number),
        None => Err(ConfigFault::WrongKind(key)),
    }
}

/// Returns the number at a key, within the key's limits, or `Missing`, `WrongKind` or `OutOfRange`.
#[tactic(auto, unfolding(crate::specs::Keys::number_at))]
pub(crate) fn number_at(table: &Table, key: Key) -> Result<u32, ConfigFault>
    ensures value { seen (λ n. n) result ≡ key_number_at key (table_view table.now) }
    ensures inside { IfOk result (λ n. is_between (limits_of key).least (limits_of key).most n ≡ true) }
{
    number_value(key, key.limits(), value_at(table, key)?)
}

/// Returns the number at a key that may be missing, within these limits, or `WrongKind` or `OutOfRange`.
#[tactic(auto, unfolding(crate::specs::Keys::optional_number_at))]
pub(crate) fn optional_number_within(
    table: &Table,
    key: Key,
    limits: Limits,
) -> Result<Option<u32>, ConfigFault>
    requires { limits.most < 2 ^ 32 }
    ensures value { seen (λ n. n) result ≡ optional_number_at key limits.least limits.most (table_view table.now) }
    ensures inside { IfOk result (λ found. IfSome found (λ n. is_between limits.least limits.most n ≡ true)) }
{
    match found_at(table, key) {
        Some(value) => Ok(Some(number_value(key, limits, value)?)),
        None => Ok(None),
    }
}

/// Returns the number at a key that may be missing, within the key's limits, or `WrongKind` or `OutOfRange`.
pub(crate) fn optional_number_at(table: &Table, key: Key) -> Result<Option<u32>, ConfigFault>
    ensures value { seen (λ n. n) result ≡ optional_key_number_at key (table_view table.now) }
    ensures inside { IfOk result (λ found. IfSome found (λ n. is_between (limits_of key).least (limits_of key).most n ≡ true)) }
{
    optional_number_within(table, key, key.limits())
}

/// Returns whether the value of a key is true, or `WrongKind`.
#[tactic(auto, unfolding(crate::specs::Keys::flag_value))]
fn flag_value(key: Key, value: &Value) -> Result<bool, ConfigFault>
    ensures { seen (λ b. b) result ≡ flag_value key (view value.now) }
{
    match value.as_bool() {
        Some(flag) => Ok(flag),
        None => Err(ConfigFault::WrongKind(key)),
    }
}

/// Returns whether a key that may be missing is true, or `WrongKind`.
#[tactic(auto, unfolding(crate::specs::Keys::optional_flag_at))]
pub(crate) fn optional_flag_at(table: &Table, key: Key) -> Result<Option<bool>, ConfigFault>
    ensures { seen (λ b. b) result ≡ optional_flag_at key (table_view table.now) }
{
    match found_at(table, key) {
        Some(value) => Ok(Some(flag_value(key, value)?)),
        None => Ok(None),
    }
}
