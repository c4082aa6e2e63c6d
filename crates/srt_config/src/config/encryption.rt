//! The encryption of a route: the passphrases and the length of keys in its table.

ghost use Rattle.std.specs.Prelude.{◌≡◌, option_map, string_bytes, true};
ghost use Rattle.toml.specs.View.{view, table_view};
ghost use Rattle.srt_types.specs.Access.{access_of};
ghost use Rattle.srt_config.specs.FirstFault.{seen, Gives};
ghost use Rattle.srt_config.specs.Encryption.{is_passphrase, passphrase_in, passphrase_value, passphrase_at, length_in, key_length_in};
ghost use Rattle.srt_config.specs.Encryption.{key_length_value, key_length_at, has_passphrase, encryption_in, encryption_at, default_encryption_at};
ghost use Rattle.srt_config.specs.Encryption.{with_encryption};
ghost use Rattle.srt_config.specs.inside.EncryptionParts.{encryption_seen};

use super::faults::ConfigFault;
use super::keys::Key;
use super::typed_values::{found_at, text_value};
use srt_types::{Access, KeyLength, RoleAccess, is_between};
use std::alloc::Global;
use toml::{Table, Value};

/// What encrypts the sessions of a route.
#[derive(Drop)]
pub(crate) struct Encryption {
    /// The passphrase of publishers; None if their sessions aren't encrypted.
    pub(crate) publish: Option<String>,
    /// The passphrase of subscribers; None if their sessions aren't encrypted.
    pub(crate) request: Option<String>,
    /// The length of the keys that callers have to bring; None if they choose it.
    pub(crate) key_length: Option<KeyLength>,
}

fn is_passphrase(text: &[u8]) -> bool
    ensures { result ≡ is_passphrase text.now }
{
    let limits = Key::PublishPassphrase.limits();
    is_between(limits.least, limits.most, text.len())
}

/// Copies a passphrase, or returns `OutOfRange`.
#[tactic(auto, unfolding(crate::specs::Encryption::passphrase_in))]
fn read_passphrase(alloc: Global, key: Key, text: &str) -> Result<String, ConfigFault>
    ensures { Gives string_bytes result (passphrase_in key text.now) }
{
    if !is_passphrase(text.as_bytes()) {
        return Err(ConfigFault::OutOfRange(key));
    }
    match String::from_str(alloc, text) {
        Ok(text) => Ok(text),
        Err(_) => Err(ConfigFault::OutOfMemory),
    }
}

#[tactic(auto, unfolding(crate::specs::Encryption::passphrase_value))]
fn passphrase_value(alloc: Global, key: Key, value: &Value) -> Result<String, ConfigFault>
    ensures { Gives string_bytes result (passphrase_value key (view value.now)) }
{
    read_passphrase(alloc, key, text_value(key, value)?)
}

/// Returns the passphrase of a role, at a key that may be missing.
#[tactic(auto, unfolding(crate::specs::Encryption::passphrase_at))]
pub(crate) fn passphrase_at(
    alloc: Global,
    table: &Table,
    key: Key,
) -> Result<Option<String>, ConfigFault>
    ensures { Gives (option_map string_bytes) result (passphrase_at key (table_view table.now)) }
{
    match found_at(table, key) {
        Some(value) => Ok(Some(passphrase_value(alloc, key, value)?)),
        None => Ok(None),
    }
}

/// Returns the length of keys of this many bytes; None unless they are 16, 24 or 32.
fn length_in(bytes: i64) -> Option<KeyLength>
    ensures { result ≡ length_in bytes }
{
    match bytes {
        16 => Some(KeyLength::Aes128),
        24 => Some(KeyLength::Aes192),
        32 => Some(KeyLength::Aes256),
        _ => None,
    }
}

/// Returns the length of keys that a number states, or `OutOfRange`, also if none is allowed.
fn read_key_length(allowed: bool, bytes: i64) -> Result<KeyLength, ConfigFault>
    ensures { seen (λ l. l) result ≡ key_length_in allowed bytes }
{
    if !allowed {
        return Err(ConfigFault::OutOfRange(Key::Pbkeylen));
    }
    match length_in(bytes) {
        Some(length) => Ok(length),
        None => Err(ConfigFault::OutOfRange(Key::Pbkeylen)),
    }
}

#[tactic(auto, unfolding(crate::specs::Encryption::key_length_value))]
fn key_length_value(allowed: bool, value: &Value) -> Result<KeyLength, ConfigFault>
    ensures { seen (λ l. l) result ≡ key_length_value allowed (view value.now) }
{
    match value.as_integer() {
        Some(bytes) => read_key_length(allowed, bytes),
        None => Err(ConfigFault::WrongKind(Key::Pbkeylen)),
    }
}

/// Returns the length of keys, whose key may be missing, or `WrongKind` or `OutOfRange`.
#[tactic(auto, unfolding(crate::specs::Encryption::key_length_at))]
pub(crate) fn key_length_at(allowed: bool, table: &Table) -> Result<Option<KeyLength>, ConfigFault>
    ensures { seen (λ l. l) result ≡ key_length_at allowed (table_view table.now) }
{
    match found_at(table, Key::Pbkeylen) {
        Some(value) => Ok(Some(key_length_value(allowed, value)?)),
        None => Ok(None),
    }
}

/// Whether a table has a passphrase of a role, right or wrong.
pub(crate) fn has_passphrase(table: &Table) -> bool
    ensures { result ≡ has_passphrase (table_view table.now) }
{
    found_at(table, Key::PublishPassphrase).is_some()
        || found_at(table, Key::RequestPassphrase).is_some()
}

/// Returns the encryption in a table, with a length of keys where one is allowed.
#[tactic(auto, unfolding(crate::specs::Encryption::encryption_in))]
fn encryption_in(alloc: Global, allowed: bool, table: &Table) -> Result<Encryption, ConfigFault>
    ensures { Gives encryption_seen result (encryption_in allowed (table_view table.now)) }
{
    let publish = passphrase_at(alloc, table, Key::PublishPassphrase)?;
    let request = passphrase_at(alloc, table, Key::RequestPassphrase)?;
    let key_length = key_length_at(allowed, table)?;
    Ok(Encryption {
        publish,
        request,
        key_length,
    })
}

/// Returns the encryption of the route of a table, whose length of keys means nothing without a passphrase. Allocates the
/// passphrases.
pub(crate) fn encryption_at(alloc: Global, table: &Table) -> Result<Encryption, ConfigFault>
    ensures { Gives encryption_seen result (encryption_at (table_view table.now)) }
{
    encryption_in(alloc, has_passphrase(table), table)
}

/// Returns the encryption in the table of defaults, whose routes may have a passphrase themselves. Allocates the
/// passphrases.
pub(crate) fn default_encryption_at(alloc: Global, table: &Table) -> Result<Encryption, ConfigFault>
    ensures { Gives encryption_seen result (default_encryption_at (table_view table.now)) }
{
    encryption_in(alloc, true, table)
}

/// Returns these access rules with this encryption.
pub(crate) fn encrypted(access: Access, encryption: Encryption) -> Access
    ensures { access_of result ≡ with_encryption (encryption_seen encryption) (access_of access) }
{
    let publish = access.publish;
    let request = access.request;
    Access {
        publish: RoleAccess {
            from: publish.from,
            key: publish.key,
            passphrase: encryption.publish,
        },
        request: RoleAccess {
            from: request.from,
            key: request.key,
            passphrase: encryption.request,
        },
        key_length: encryption.key_length,
    }
}
