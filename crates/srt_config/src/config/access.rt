//! The clients allowed on a route: the lists and keys in its table.

ghost use Rattle.std.specs.Prelude.{◌≡◌, ◌≤◌, [], length, option_map, string_bytes, IfSome};
ghost use Rattle.std.specs.List.{list_all};
ghost use Rattle.toml.specs.View.{view, table_view, items_view};
ghost use Rattle.srt_types.specs.Access.{access_of};
ghost use Rattle.srt_types.specs.Entries.{is_between};
ghost use Rattle.srt_config.specs.FirstFault.{seen, Gives};
ghost use Rattle.srt_config.specs.inside.AccessParts.{ending_seen};
ghost use Rattle.srt_config.specs.Access.{ending_in, ipv4_network_in, ipv6_network_in, network_in, are_texts, member_count};
ghost use Rattle.srt_config.specs.Access.{networked, networks_from, list_in, list_value, list_at};
ghost use Rattle.srt_config.specs.Access.{is_key_byte, is_key_text, key_in, key_value, key_at, access_at};

use super::address::{has_byte, ipv6_in, octet_to};
use super::faults::ConfigFault;
use super::keys::Key;
use super::typed_values::{found_at, text_value};
use crate::numbers::read_number;
use crate::splitting::parted;
use srt_types::{Access, Network, RoleAccess, is_between};
use std::alloc::Global;
use toml::{Table, Value};

/// The fourth octet of a network's address, and the number of first bits that its addresses have in common: 0 to 32.
#[derive(Clone, Copy)]
pub(crate) struct Ending {
    /// The octet's value.
    pub(crate) octet: u8,
    /// The number of bits.
    pub(crate) prefix: u32,
}

/// Reads `d` or `d/n` in decimal digits without leading zeros; None if the text has another form.
#[tactic(auto, unfolding(crate::specs::Access::ending_in))]
fn read_ending(text: &[u8]) -> Option<Ending>
    ensures value { option_map ending_seen result ≡ ending_in text.now }
    ensures few { IfSome result (λ ending. ending.prefix ≤ 32) }
{
    match parted(b'/', text) {
        Some(parts) => {
            let octet = read_number(parts.before, 256)?;
            let prefix = read_number(parts.behind, 33)?;
            Some(Ending {
                octet: octet as u8,
                prefix: prefix as u32,
            })
        }
        None => {
            let octet = read_number(text, 256)?;
            Some(Ending {
                octet: octet as u8,
                prefix: 32,
            })
        }
    }
}

/// Reads `a.b.c.d` or `a.b.c.d/n` in decimal digits without leading zeros.
#[tactic(auto, unfolding(crate::specs::Access::ipv4_network_in))]
fn read_ipv4_network(text: &[u8]) -> Option<Network>
    ensures { result ≡ ipv4_network_in text.now }
{
    let a = octet_to(b'.', text)?;
    let b = octet_to(b'.', a.behind)?;
    let c = octet_to(b'.', b.behind)?;
    let d = read_ending(c.behind)?;
    let address = u32::from_be_bytes([a.octet, b.octet, c.octet, d.octet]);
    Network::of_prefix(address, d.prefix)
}

/// Reads `X` or `X/n` with an IPv6 address X and n in decimal digits without leading zeros.
#[tactic(auto, unfolding(crate::specs::Access::ipv6_network_in))]
fn read_ipv6_network(text: &[u8]) -> Option<Network>
    ensures { result ≡ ipv6_network_in text.now }
{
    match parted(b'/', text) {
        Some(parts) => {
            let ip = ipv6_in(parts.before)?;
            let prefix = read_number(parts.behind, 129)?;
            Network::of_ipv6_prefix(u128::from_be_bytes(ip), prefix as u32)
        }
        None => {
            let ip = ipv6_in(text)?;
            Network::of_ipv6_prefix(u128::from_be_bytes(ip), 128)
        }
    }
}

/// Reads a network: `a.b.c.d` or `a.b.c.d/n`, or `X` or `X/n` with an IPv6 address X, where n is in decimal digits without
/// leading zeros. An address alone is a network of one address. None if the text has another form, or if the address has a
/// bit set after its first n.
#[tactic(auto, unfolding(crate::specs::Access::network_in))]
pub fn read_network(text: &[u8]) -> Option<Network>
    ensures { result ≡ network_in text.now }
{
    if has_byte(b':', text) {
        read_ipv6_network(text)
    } else {
        read_ipv4_network(text)
    }
}

/// Returns the network in a text, or `BadAddress`.
fn network_at(key: Key, text: &str) -> Result<Network, ConfigFault>
    ensures { seen (λ n. n) result ≡ networked key (network_in text.now) }
{
    match read_network(text.as_bytes()) {
        Some(network) => Ok(network),
        None => Err(ConfigFault::BadAddress(key)),
    }
}

#[tactic(auto, using(crate::proofs::RouteItems::items_step))]
fn are_texts(values: &[Value]) -> bool
    ensures { result ≡ are_texts (items_view values.now) }
{
    let mut rest = values;
    while !rest.is_empty() {
        if rest[0].as_str().is_none() {
            return false;
        }
        rest = &rest[1..];
    }
    true
}

fn is_count(values: &[Value]) -> bool
    ensures { result ≡ is_between 1 16 (member_count (items_view values.now)) }
{
    let limits = Key::PublishFrom.limits();
    is_between(limits.least, limits.most, values.len())
}

/// Reads these values as networks.
#[tactic(auto, using(crate::proofs::RouteItems::items_step))]
fn networks_from(alloc: Global, key: Key, values: &[Value]) -> Result<Vec<Network>, ConfigFault>
    ensures { Gives (λ networks. networks.items) result (networks_from key [] (items_view values.now)) }
{
    let mut networks = Vec::new(alloc);
    let mut rest = values;
    while !rest.is_empty() {
        let text = text_value(key, &rest[0])?;
        let network = network_at(key, text)?;
        if networks.push(network).is_err() {
            return Err(ConfigFault::OutOfMemory);
        }
        rest = &rest[1..];
    }
    Ok(networks)
}

/// Reads these values as 1 to 16 networks: `OutOfRange` for another number of them, `WrongKind` if one is no text, then
/// `BadAddress`.
#[tactic(auto, unfolding(crate::specs::Access::list_in))]
fn read_list(alloc: Global, key: Key, values: &[Value]) -> Result<Vec<Network>, ConfigFault>
    ensures { Gives (λ networks. networks.items) result (list_in key (items_view values.now)) }
{
    if !is_count(values) {
        return Err(ConfigFault::OutOfRange(key));
    }
    if !are_texts(values) {
        return Err(ConfigFault::WrongKind(key));
    }
    networks_from(alloc, key, values)
}

#[tactic(auto, unfolding(crate::specs::Access::list_value))]
fn list_value(alloc: Global, key: Key, value: &Value) -> Result<Vec<Network>, ConfigFault>
    ensures { Gives (λ networks. networks.items) result (list_value key (view value.now)) }
{
    match value.as_array() {
        Some(values) => read_list(alloc, key, values.as_slice()),
        None => Err(ConfigFault::WrongKind(key)),
    }
}

/// Returns the networks at a key that may be missing.
#[tactic(auto, unfolding(crate::specs::Access::list_at))]
pub(crate) fn list_at(
    alloc: Global,
    table: &Table,
    key: Key,
) -> Result<Option<Vec<Network>>, ConfigFault>
    ensures { Gives (option_map (λ networks. networks.items)) result (list_at key (table_view table.now)) }
{
    match found_at(table, key) {
        Some(value) => Ok(Some(list_value(alloc, key, value)?)),
        None => Ok(None),
    }
}

fn is_key_byte(byte: u8) -> bool
    ensures { result ≡ is_key_byte byte }
{
    (b'a'..=b'z').contains(&byte)
        || (b'A'..=b'Z').contains(&byte)
        || (b'0'..=b'9').contains(&byte)
        || (b'-'..=b'.').contains(&byte)
        || byte == b'_'
        || byte == b'~'
}

fn are_key_bytes(text: &[u8]) -> bool
    ensures { result ≡ list_all is_key_byte text.now }
{
    text.iter().all(|b| is_key_byte(*b))
}

/// Whether a role may have this text as its key: 1 to 64 bytes, each an ASCII letter or digit, `-`, `_`, `.` or `~`. Linear
/// in the length.
pub fn is_key_text(text: &[u8]) -> bool
    ensures { result ≡ is_key_text text.now }
{
    let limits = Key::PublishKey.limits();
    is_between(limits.least, limits.most, text.len()) && are_key_bytes(text)
}

/// Copies the key of a role, or returns `OutOfRange`.
#[tactic(auto, unfolding(crate::specs::Access::key_in))]
fn read_key(alloc: Global, key: Key, text: &str) -> Result<String, ConfigFault>
    ensures { Gives string_bytes result (key_in key text.now) }
{
    if !is_key_text(text.as_bytes()) {
        return Err(ConfigFault::OutOfRange(key));
    }
    match String::from_str(alloc, text) {
        Ok(text) => Ok(text),
        Err(_) => Err(ConfigFault::OutOfMemory),
    }
}

#[tactic(auto, unfolding(crate::specs::Access::key_value))]
fn key_value(alloc: Global, key: Key, value: &Value) -> Result<String, ConfigFault>
    ensures { Gives string_bytes result (key_value key (view value.now)) }
{
    read_key(alloc, key, text_value(key, value)?)
}

/// Returns the key of a role, at a key that may be missing.
#[tactic(auto, unfolding(crate::specs::Access::key_at))]
pub(crate) fn key_at(alloc: Global, table: &Table, key: Key) -> Result<Option<String>, ConfigFault>
    ensures { Gives (option_map string_bytes) result (key_at key (table_view table.now)) }
{
    match found_at(table, key) {
        Some(value) => Ok(Some(key_value(alloc, key, value)?)),
        None => Ok(None),
    }
}

/// Returns the clients allowed on the route of a table. Allocates the lists and keys.
#[tactic(auto, unfolding(crate::specs::Access::access_at))]
pub(crate) fn access_at(alloc: Global, table: &Table) -> Result<Access, ConfigFault>
    ensures { Gives access_of result (access_at (table_view table.now)) }
{
    let publish_from = list_at(alloc, table, Key::PublishFrom)?;
    let request_from = list_at(alloc, table, Key::RequestFrom)?;
    let publish_key = key_at(alloc, table, Key::PublishKey)?;
    let request_key = key_at(alloc, table, Key::RequestKey)?;
    Ok(Access {
        publish: RoleAccess {
            from: publish_from,
            key: publish_key,
            passphrase: None,
        },
        request: RoleAccess {
            from: request_from,
            key: request_key,
            passphrase: None,
        },
        key_length: None,
    })
}
