//! Hints: what may help to fix a fault.

ghost use Rattle.std.specs.Prelude.{◌≡◌, true};
ghost use Rattle.srt_config.specs.KeyTable.{is_private};
ghost use Rattle.srt_config.specs.declared.config.placed.Place.TheVariants as place;
ghost use Rattle.srt_explain.specs.Explaining.{is_hint_private};
ghost use Rattle.srt_explain.specs.Misspelled.{key_named, like, below_hint, unknown_hint};

use crate::explanation::Hint;
use crate::places::{line_at, place_after};
use crate::resemblance::resembled;
use crate::values::{
    first_named, first_no_network, first_no_text, members_at, number_at, opening_of, routes_of,
    sessions_of, text_or_empty, value_at,
};
use srt_config::{
    DEFAULT_KEYS, Key, Place, ROUTE_KEYS, TOP_KEYS, ValueKind, read_network, read_number,
};
use srt_types::Network;
use toml::{Table, Value};

/// Returns the hint for a text that isn't TOML from this place on.
pub(crate) fn of_text(text: &[u8], at: usize) -> Hint {
    let at = at.min(text.len());
    let place = place_after(&text[..at]);
    if line_at(text, at).starts_with(b"[route]") {
        return Hint::OneBracket(place);
    }
    let begins = match text[at..].first() {
        Some(byte) => byte.is_ascii_alphabetic(),
        None => false,
    };
    let follows = at > 0 && text[..at].trim_ascii_end().ends_with(b"=");
    if begins && follows {
        return Hint::Unquoted(place);
    }
    Hint::Place(place)
}

/// Returns the key of this spelling among these.
fn key_named(keys: &[Key], text: &str) -> Option<Key>
    ensures { result ≡ key_named keys.now text.now }
{
    let mut rest = keys;
    while !rest.is_empty() {
        if rest[0].name() == text {
            return Some(rest[0]);
        }
        rest = &rest[1..];
    }
    None
}

/// Returns the hint at a key that resembles this one, if it resembles any.
fn like(key: Option<Key>) -> Hint
    ensures value { result ≡ like key }
    ensures private { is_hint_private result ≡ true }
{
    match key {
        Some(key) => Hint::Resembles(key),
        None => Hint::Nothing,
    }
}

/// Returns the hint for a key that isn't known in the table of the part of this place.
pub(crate) fn of_unknown(place: Place, text: &str) -> Hint
    ensures value { result ≡ unknown_hint place text.now }
    ensures private { is_hint_private result ≡ true }
{
    match place {
        Place::Route(_) => of_unknown_below(&ROUTE_KEYS, text),
        Place::Defaults => match key_named(&[Key::Name], text) {
            Some(key) => Hint::OfRoute(key),
            None => of_unknown_below(&DEFAULT_KEYS, text),
        },
        Place::Above => of_unknown_above(text),
    }
}

/// Returns the hint for a key that isn't known in the whole table.
fn of_unknown_above(text: &str) -> Hint
    ensures value { result ≡ unknown_hint place.Above text.now }
    ensures private { is_hint_private result ≡ true }
{
    match key_named(&ROUTE_KEYS, text) {
        Some(key) => Hint::OfRoute(key),
        None => like(resembled(&TOP_KEYS, text.as_bytes())),
    }
}

/// Returns the hint for a key that isn't known in a table of these keys below the whole one.
fn of_unknown_below(keys: &[Key], text: &str) -> Hint
    ensures value { result ≡ below_hint keys.now text.now }
    ensures private { is_hint_private result ≡ true }
{
    match key_named(&TOP_KEYS, text) {
        Some(key) => Hint::OfTable(key),
        None => like(resembled(keys, text.as_bytes())),
    }
}

/// Whether a text in quotes would be a whole number without them.
fn is_number(text: &str) -> bool {
    let digits = text.as_bytes();
    !digits.is_empty()
        && digits
            .iter()
            .all(|byte| byte.is_ascii_digit() || *byte == b'_')
}

/// Returns the place among these values of the first that isn't a table.
fn first_other(values: &[Value]) -> Option<usize> {
    for at in 0..values.len() {
        if values[at].as_table().is_none() {
            return Some(at);
        }
    }
    None
}

/// Returns the hint for a value of the wrong kind.
pub(crate) fn of_kind(table: &Table, key: Key) -> Hint
    ensures { is_private key ≡ true → is_hint_private result ≡ true }
{
    let Some(value) = value_at(table, key) else {
        return Hint::Nothing;
    };
    match key.kind() {
        ValueKind::Text | ValueKind::Table => Hint::Nothing,
        ValueKind::Number => match value.as_str() {
            Some(text) if is_number(text) => Hint::Quoted,
            _ => Hint::Nothing,
        },
        ValueKind::Boolean => match value.as_str() {
            Some("true" | "false") => Hint::Quoted,
            _ => Hint::Nothing,
        },
        ValueKind::Tables => {
            if value.is_table() {
                return Hint::OneTable;
            }
            match first_other(routes_of(table)) {
                Some(at) => Hint::NoTable(at.saturating_add(1)),
                None => Hint::Nothing,
            }
        }
        ValueKind::Networks => match first_no_text(members_at(table, key)) {
            Some(at) => Hint::NoText(at.saturating_add(1)),
            None => Hint::Nothing,
        },
    }
}

/// Reads the number of first bits that a network's text has after its slash, without leading zeros, if it is below this
/// limit.
fn prefix_in(limit: u64, text: &str) -> Option<u32> {
    match u32::try_from(read_number(text.as_bytes(), limit)?) {
        Ok(prefix) => Some(prefix),
        Err(_) => None,
    }
}

/// Reads a network of one address.
fn only_address(text: &str) -> Option<Network> {
    if text.contains("/") {
        return None;
    }
    read_network(text.as_bytes())
}

/// The 16 bytes of an IPv4 address, `::ffff:a.b.c.d`.
fn mapped(ip: u32) -> [u8; 16] {
    let [a, b, c, d] = ip.to_be_bytes();
    [0, 0, 0, 0, 0, 0, 0, 0, 0, 0, 255, 255, a, b, c, d]
}

/// Returns the hint for an IPv4 address with the length of a network, 0 to 32 bits.
fn of_ipv4_network(number: usize, ip: u32, prefix: u32) -> Hint {
    let mask = u32::MAX
        .checked_shl(32u32.saturating_sub(prefix))
        .unwrap_or(0);
    Hint::AddressInNetwork {
        number,
        address: mapped(ip),
        first: mapped(ip & mask),
        prefix,
    }
}

/// Returns the hint for an IPv6 address with the length of a network, 0 to 128 bits.
fn of_ipv6_network(number: usize, ip: u128, prefix: u32) -> Hint {
    let mask = u128::MAX
        .checked_shl(128u32.saturating_sub(prefix))
        .unwrap_or(0);
    Hint::AddressInNetwork {
        number,
        address: ip.to_be_bytes(),
        first: (ip & mask).to_be_bytes(),
        prefix,
    }
}

/// Returns the hint for the text of this number, counted from 1, in a list, which isn't a network.
fn of_network(number: usize, text: &str) -> Hint {
    let Some((address, prefix)) = text.split_once("/") else {
        return Hint::NoNetwork(number);
    };
    match only_address(address) {
        Some(Network::V4 { first, size: _ }) => match prefix_in(33, prefix) {
            Some(prefix) => of_ipv4_network(number, first, prefix),
            None => Hint::NoNetwork(number),
        },
        Some(Network::V6 { first, prefix: _ }) => match prefix_in(129, prefix) {
            Some(prefix) => of_ipv6_network(number, first, prefix),
            None => Hint::NoNetwork(number),
        },
        None => Hint::NoNetwork(number),
    }
}

/// Returns the hint for a list with a text that isn't a network.
fn of_networks(table: &Table, key: Key) -> Hint {
    let members = members_at(table, key);
    let Some(at) = first_no_network(members) else {
        return Hint::Nothing;
    };
    let number = at.saturating_add(1);
    match members.get(at) {
        Some(value) => of_network(number, value.as_str().unwrap_or("")),
        None => Hint::NoNetwork(number),
    }
}

/// Returns the hint for a text that is none of the two that its key allows.
fn of_choice(key: Key, text: &str) -> Hint {
    let Some(choices) = key.choices() else {
        return Hint::Nothing;
    };
    if text.trim_ascii().eq_ignore_ascii_case(choices.first) {
        return Hint::Choice(choices.first);
    }
    let is_file = key == Key::Mode && text == "file";
    if is_file || text.trim_ascii().eq_ignore_ascii_case(choices.second) {
        return Hint::Choice(choices.second);
    }
    Hint::Nothing
}

/// Returns the hint for a number of slots for publishers that is too great.
fn of_reserved(route: &Table) -> Hint {
    match usize::try_from(sessions_of(route)) {
        Ok(sessions) if sessions <= Key::Reserved.limits().most => Hint::Sessions(sessions),
        _ => Hint::Nothing,
    }
}

/// Returns the hint for a length of keys that isn't allowed: if it is one, the route has no passphrase.
fn of_key_length(route: &Table) -> Hint {
    match number_at(route, Key::Pbkeylen) {
        Some(16 | 24 | 32) => Hint::NoPassphrase,
        _ => Hint::Nothing,
    }
}

/// Returns the hint for a value outside its limits.
pub(crate) fn of_range(table: &Table, key: Key) -> Hint
    ensures { is_private key ≡ true → is_hint_private result ≡ true }
{
    match key {
        Key::Route => Hint::Routes(routes_of(table).len()),
        Key::Mode | Key::Callers => of_choice(key, text_or_empty(table, key)),
        Key::CloseRound => Hint::Opens(opening_of(table)),
        Key::Reserved => of_reserved(table),
        Key::PublishFrom | Key::RequestFrom => Hint::Members(members_at(table, key).len()),
        Key::PublishPassphrase | Key::RequestPassphrase => {
            Hint::Bytes(text_or_empty(table, key).len())
        }
        Key::Pbkeylen => of_key_length(table),
        _ => Hint::Nothing,
    }
}

/// Whether a name may have this character.
fn may_be_in_name(it: char) -> bool {
    it.is_ascii_alphanumeric() || it == '-' || it == '_' || it == '.' || it == '/'
}

/// Returns the hint for a name of the wrong form.
pub(crate) fn of_name(name: &str) -> Hint {
    for it in name.chars() {
        if !may_be_in_name(it) {
            return Hint::Character(it);
        }
    }
    if name.is_empty() {
        return Hint::EmptyName;
    }
    if name.len() > Key::Name.limits().most {
        return Hint::LongName(name.len());
    }
    Hint::Nothing
}

/// Returns the hint for a secret that isn't 64 hexadecimal digits.
pub(crate) fn of_secret(text: &str) -> Hint
    ensures { is_hint_private result ≡ true }
{
    let mut count = 0usize;
    for it in text.chars() {
        count = count.saturating_add(1);
        if !it.is_ascii_hexdigit() {
            return Hint::NoDigit(count);
        }
    }
    Hint::Characters(count)
}

/// Returns the hint for an address of the wrong form.
fn of_address(text: &str) -> Hint
    ensures { is_hint_private result ≡ true }
{
    let colons = text.as_bytes().iter().filter(|byte| **byte == b':').count();
    if text.starts_with("[") && text.ends_with("]") {
        return Hint::NoPort;
    }
    if text.starts_with("[") || colons > 1 {
        return Hint::Ipv6;
    }
    if colons == 0 {
        return Hint::NoPort;
    }
    if text.starts_with(":") {
        return Hint::PortAlone;
    }
    Hint::Nothing
}

/// Returns the hint for an address of the wrong form, or a list with a text that isn't a network.
pub(crate) fn of_bad_address(table: &Table, key: Key) -> Hint
    ensures { is_private key ≡ true → is_hint_private result ≡ true }
{
    match key.kind() {
        ValueKind::Networks => of_networks(table, key),
        ValueKind::Text
        | ValueKind::Number
        | ValueKind::Boolean
        | ValueKind::Table
        | ValueKind::Tables => { of_address(text_or_empty(table, key)) }
    }
}

/// Returns the hint for a name that one of these routes has.
pub(crate) fn of_same_name(before: &[Value], name: &str) -> Hint {
    match first_named(before, name) {
        Some(at) => Hint::SameName(at.saturating_add(1)),
        None => Hint::Nothing,
    }
}
