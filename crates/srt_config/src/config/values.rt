//! The secret and the addresses.

ghost use Rattle.std.specs.Prelude.{◌≡◌, option_map};
ghost use Rattle.toml.specs.View.{view, table_view};
ghost use Rattle.srt_cookie.specs.Cookie.{secret_bytes};
ghost use Rattle.srt_config.specs.FirstFault.{seen};
ghost use Rattle.srt_config.specs.AddressParts.{address_of};
ghost use Rattle.srt_config.specs.Config.{secret_in, secret_at, address_value, address_at, optional_address_at};

use super::address::{BindAddress, read_address};
use super::faults::ConfigFault;
use super::keys::Key;
use super::typed_values::{found_at, text_at, text_value, value_at};
use srt_cookie::Secret;
use toml::{Table, Value};

/// Reads a secret: 32 bytes in 64 hexadecimal digits, of either case.
#[tactic(auto, unfolding(crate::specs::Config::secret_in))]
fn read_secret(text: &str) -> Result<Secret, ConfigFault>
    ensures { seen secret_bytes result ≡ secret_in text.now }
{
    let mut bytes = [0; 32];
    match hex::decode_to_slice(text, &mut bytes) {
        Ok(()) => Ok(Secret::new(bytes)),
        Err(_) => Err(ConfigFault::BadSecret),
    }
}

/// Returns the secret of a configuration's table.
#[tactic(auto, unfolding(crate::specs::Config::secret_at))]
pub(crate) fn secret_at(table: &Table) -> Result<Secret, ConfigFault>
    ensures { seen secret_bytes result ≡ secret_at (table_view table.now) }
{
    read_secret(text_at(table, Key::Secret)?)
}

/// Returns the address that the value of a key is, or `WrongKind` or `BadAddress`.
#[tactic(auto, unfolding(crate::specs::Config::address_value))]
fn address_value(key: Key, value: &Value) -> Result<BindAddress, ConfigFault>
    ensures { seen address_of result ≡ address_value key (view value.now) }
{
    match read_address(text_value(key, value)?.as_bytes()) {
        Some(address) => Ok(address),
        None => Err(ConfigFault::BadAddress(key)),
    }
}

/// Returns the address at a key, or `Missing`, `WrongKind` or `BadAddress`.
#[tactic(auto, unfolding(crate::specs::Config::address_at))]
pub(crate) fn address_at(table: &Table, key: Key) -> Result<BindAddress, ConfigFault>
    ensures { seen address_of result ≡ address_at key (table_view table.now) }
{
    address_value(key, value_at(table, key)?)
}

/// Returns the address at a key that may be missing, or `WrongKind` or `BadAddress`.
#[tactic(auto, unfolding(crate::specs::Config::optional_address_at))]
pub(crate) fn optional_address_at(
    table: &Table,
    key: Key,
) -> Result<Option<BindAddress>, ConfigFault>
    ensures { seen (option_map address_of) result ≡ optional_address_at key (table_view table.now) }
{
    match found_at(table, key) {
        Some(value) => Ok(Some(address_value(key, value)?)),
        None => Ok(None),
    }
}
