//! The words of faults.

ghost use Rattle.std.specs.Prelude.{◌≡◌, Some, option_map};
ghost use Rattle.std.specs.Fmt.{DisplaysOnOk};
ghost use Rattle.std.specs.List.{list_all};
ghost use Rattle.std.specs.Fmt.InlineText.{inline_text};
ghost use Rattle.srt_config.specs.KeyTable.{both_texts, key_name};
ghost use Rattle.srt_explain.specs.FaultTexts.{is_plain_byte, is_plain, written_key, choices_text, range_text, networks_text, allowed_with, allowed_text};
ghost use Rattle.srt_explain.specs.FaultTexts.{route_text, part_text, line_text, placed_text, unread_text, displaced_text, of_table_text};
ghost use Rattle.srt_explain.specs.FaultTexts.{is_passphrase, passphrase_text, unlike_text, unknown_text, missing_text};
ghost use Rattle.srt_explain.specs.FaultTexts.{other_routes_text, no_list_text, no_text_text, quotes_text, wrong_kind_of, wrong_kind_text};
ghost use Rattle.srt_explain.specs.FaultTexts.{few_slots_text, reserved_text, limited_text, meant_text, long_text, no_passphrase_text, out_of_range_text};
ghost use Rattle.srt_explain.specs.FaultTexts.{name_hint_text, bad_name_text, repeated_name_text, secret_hint_text, bad_secret_text};
ghost use Rattle.srt_explain.specs.FaultTexts.{in_network_text, network_text, bad_network_text, address_before_port, address_hint_text};
ghost use Rattle.srt_explain.specs.FaultTexts.{allowed_address_text, socket_address_text, bad_address_of, bad_address_text, fault_text};
ghost use Rattle.srt_explain.specs.FaultTexts.{explained_text, explanation_text, others_text, faults_text};

use crate::explanation::{Explanation, Faults, Hint, Part, RouteAt};
use crate::places::TextPlace;
use crate::texts::Address;
use srt_config::{
    Choices, ConfigFault, DEFAULT_KEYS, Key, Limits, ROUTE_KEYS, TOP_KEYS, ValueKind,
};
use std::fmt;

/// Whether a byte is a letter, a digit, `-` or `_`.
fn is_plain_byte(byte: u8) -> bool
    ensures { result ≡ is_plain_byte byte }
{
    (b'a'..=b'z').contains(&byte)
        || (b'A'..=b'Z').contains(&byte)
        || (b'0'..=b'9').contains(&byte)
        || byte == b'-'
        || byte == b'_'
}

fn are_plain_bytes(key: &[u8]) -> bool
    ensures { result ≡ list_all is_plain_byte key.now }
{
    key.iter().all(|byte| is_plain_byte(*byte))
}

/// Whether a key needs no quotes.
fn is_plain(key: &[u8]) -> bool
    ensures { result ≡ is_plain key.now }
{
    !key.is_empty() && are_plain_bytes(key)
}

/// A key as it is written, in quotes if it isn't one of letters, digits, `-` and `_` alone.
#[derive(Clone, Copy)]
struct KeyText<'a>(&'a str);

impl fmt::Display for KeyText<'_> {
    ghost output = { λ x. written_key x.0.now };

    fn fmt<W: fmt::Write>(&self, f: &mut fmt::Formatter<W>) -> fmt::Result {
        let text = self.0;
        if is_plain(text.as_bytes()) {
            return f.write_str(text);
        }
        write!(f, "{text:?}")
    }
}

/// A key's name.
#[derive(Clone, Copy)]
struct KeyName(Key);

impl fmt::Display for KeyName {
    ghost output = { λ x. Some (key_name x.0) };

    fn fmt<W: fmt::Write>(&self, f: &mut fmt::Formatter<W>) -> fmt::Result {
        f.write_str(self.0.name())
    }
}

/// Writes the two texts that a key allows.
#[tactic(auto, unfolding(crate::specs::FaultTexts::choices_text))]
fn write_choices<W: fmt::Write>(f: &mut fmt::Formatter<W>, choices: Option<Choices>) -> fmt::Result
    ensures { DisplaysOnOk W.write_str_gives f.old result (Some (choices_text (option_map both_texts choices))) f.new }
{
    match choices {
        Some(Choices { first, second }) => write!(f, "\"{first}\" and \"{second}\""),
        None => f.write_str(""),
    }
}

/// Limits.
#[derive(Clone, Copy)]
struct Range(Limits);

impl fmt::Display for Range {
    ghost output = { λ x. Some (range_text x.0) };

    #[tactic(auto, unfolding(crate::specs::FaultTexts::range_text))]
    fn fmt<W: fmt::Write>(&self, f: &mut fmt::Formatter<W>) -> fmt::Result {
        let Limits { least, most } = self.0;
        write!(f, "{least} to {most}")
    }
}

/// Writes what a list of networks allows.
#[tactic(auto, unfolding(crate::specs::FaultTexts::networks_text))]
fn write_networks<W: fmt::Write>(f: &mut fmt::Formatter<W>, limits: Limits) -> fmt::Result
    ensures { DisplaysOnOk W.write_str_gives f.old result (Some (networks_text limits)) f.new }
{
    let range = Range(limits);
    write!(
        f,
        "{range} addresses or networks in quotes, as [\"192.0.2.7\", \"198.51.100.0/24\", \"2001:db8::/32\"]"
    )
}

/// Writes what a key with these limits allows.
fn write_allowed<W: fmt::Write>(f: &mut fmt::Formatter<W>, key: Key, limits: Limits) -> fmt::Result
    ensures { DisplaysOnOk W.write_str_gives f.old result (Some (allowed_with key limits)) f.new }
{
    let range = Range(limits);
    match key {
        Key::Secret => {
            let most = limits.most;
            write!(f, "{most} hexadecimal digits in quotes")
        }
        Key::Bind => f.write_str(
            "an address and a UDP port in quotes, as \"0.0.0.0:9000\" or \"[::]:9000\"",
        ),
        Key::Status => f.write_str(
            "an address and a TCP port in quotes, as \"127.0.0.1:9001\" or \"[::1]:9001\"",
        ),
        Key::Name => write!(f, "{range} letters, digits, -, _, . and / in quotes"),
        Key::Mode | Key::Callers => write_choices(f, key.choices()),
        Key::Route => write!(f, "{range} routes, each begun by a line [[route]]"),
        Key::Defaults => f.write_str("keys of a route, below a line [defaults]"),
        Key::Expect => f.write_str("true and false"),
        Key::PublishFrom | Key::RequestFrom => write_networks(f, limits),
        Key::PublishKey | Key::RequestKey => {
            write!(f, "{range} letters, digits, -, _, . and ~ in quotes")
        }
        Key::PublishPassphrase | Key::RequestPassphrase => write!(f, "{range} bytes in quotes"),
        Key::Pbkeylen => f.write_str("16, 24 and 32"),
        _ => write!(f, "{range}"),
    }
}

/// What a key allows.
#[derive(Clone, Copy)]
struct Allowed(Key);

impl fmt::Display for Allowed {
    ghost output = { λ x. Some (allowed_text x.0) };

    #[tactic(auto, unfolding(crate::specs::FaultTexts::allowed_text))]
    fn fmt<W: fmt::Write>(&self, f: &mut fmt::Formatter<W>) -> fmt::Result {
        write_allowed(f, self.0, self.0.limits())
    }
}

/// Keys, with commas between them.
#[derive(Clone, Copy)]
struct Keys<'a>(&'a [Key]);

impl fmt::Display for Keys<'_> {
    fn fmt<W: fmt::Write>(&self, f: &mut fmt::Formatter<W>) -> fmt::Result {
        let mut comma = "";
        for key in self.0 {
            f.write_str(comma)?;
            f.write_str(key.name())?;
            comma = ", ";
        }
        Ok(())
    }
}

impl fmt::Display for RouteAt {
    ghost output = { λ x. Some (route_text x) };

    #[tactic(auto, unfolding(crate::specs::FaultTexts::route_text))]
    fn fmt<W: fmt::Write>(&self, f: &mut fmt::Formatter<W>) -> fmt::Result {
        let (number, name) = (self.number, self.name.as_str());
        if name.is_empty() {
            return write!(f, "route {number}");
        }
        write!(f, "route {number} ({name})")
    }
}

/// The part that has a fault, unless that is above the routes.
#[derive(Clone, Copy)]
struct PartText(Part);

impl fmt::Display for PartText {
    ghost output = { λ x. Some (part_text x.0) };

    fn fmt<W: fmt::Write>(&self, f: &mut fmt::Formatter<W>) -> fmt::Result {
        match self.0 {
            Part::Above => f.write_str(""),
            Part::Defaults => f.write_str("[defaults]: "),
            Part::Route(route) => write!(f, "{route}: "),
        }
    }
}

/// The line of a fault, if it has one.
#[derive(Clone, Copy)]
struct LineText(Option<usize>);

impl fmt::Display for LineText {
    ghost output = { λ x. Some (line_text x.0) };

    fn fmt<W: fmt::Write>(&self, f: &mut fmt::Formatter<W>) -> fmt::Result {
        match self.0 {
            Some(line) => write!(f, "line {line}: "),
            None => f.write_str(""),
        }
    }
}

/// Writes from which place on a text can't be read.
#[tactic(auto, unfolding(crate::specs::FaultTexts::placed_text))]
fn write_placed<W: fmt::Write>(
    f: &mut fmt::Formatter<W>,
    place: TextPlace,
    message: &str,
    more: &str,
) -> fmt::Result
    ensures { DisplaysOnOk W.write_str_gives f.old result (Some (placed_text place message.now more.now)) f.new }
{
    let TextPlace { line, column } = place;
    write!(f, "line {line}, column {column}: {message}{more}")
}

/// Writes that a text can't be read.
fn write_text_fault<W: fmt::Write>(
    f: &mut fmt::Formatter<W>,
    message: &str,
    hint: Hint,
) -> fmt::Result
    ensures { DisplaysOnOk W.write_str_gives f.old result (Some (unread_text message.now hint)) f.new }
{
    match hint {
        Hint::Place(place) => write_placed(f, place, message, ""),
        Hint::Unquoted(place) => write_placed(f, place, message, "; a text stands in quotes"),
        Hint::OneBracket(place) => {
            write_placed(
                f,
                place,
                message,
                "; each route begins with a line [[route]]",
            )
        }
        _ => f.write_str(message),
    }
}

/// Writes that a key which isn't known here is one of another part.
fn write_displaced<W: fmt::Write>(
    f: &mut fmt::Formatter<W>,
    key: KeyText<'_>,
    part: Part,
) -> fmt::Result
    ensures { DisplaysOnOk W.write_str_gives f.old result (displaced_text key.entry.0.now part) f.new }
{
    match part {
        Part::Above => write!(
            f,
            "{key}: unknown key above the routes; it stands below a line [[route]]"
        ),
        Part::Defaults => write!(
            f,
            "{key}: each route has its own; it stands below a line [[route]]"
        ),
        Part::Route(_) => write!(
            f,
            "{key}: unknown key of a route; it stands above the first line [[route]]"
        ),
    }
}

/// Writes that a key which isn't known here stands above the table of defaults.
fn write_of_table<W: fmt::Write>(
    f: &mut fmt::Formatter<W>,
    key: KeyText<'_>,
    part: Part,
) -> fmt::Result
    ensures { DisplaysOnOk W.write_str_gives f.old result (of_table_text key.entry.0.now part) f.new }
{
    match part {
        Part::Defaults => write!(
            f,
            "{key}: unknown key of a route; it stands above the line [defaults]"
        ),
        Part::Above | Part::Route(_) => write_displaced(f, key, part),
    }
}

/// Returns the keys of the table that a part is.
fn keys_of(part: Part) -> &'static [Key] {
    match part {
        Part::Above => &TOP_KEYS,
        Part::Defaults => &DEFAULT_KEYS,
        Part::Route(_) => &ROUTE_KEYS,
    }
}

/// Whether a key is a passphrase, by its name.
fn is_passphrase(key: &str) -> bool
    ensures { result ≡ is_passphrase key.now }
{
    key.as_bytes().ends_with(b"passphrase")
}

/// Writes which passphrases a route has.
fn write_passphrase<W: fmt::Write>(f: &mut fmt::Formatter<W>, key: KeyText<'_>) -> fmt::Result
    ensures { DisplaysOnOk W.write_str_gives f.old result (passphrase_text key.entry.0.now) f.new }
{
    write!(
        f,
        "{key}: unknown key; a route has publish_passphrase for encoders and request_passphrase for players"
    )
}

/// Writes that a key isn't known, which resembles none.
fn write_unlike<W: fmt::Write>(
    f: &mut fmt::Formatter<W>,
    key: KeyText<'_>,
    part: Part,
) -> fmt::Result
    ensures { DisplaysOnOk W.write_str_gives f.old result (unlike_text key.entry.0.now) f.new }
{
    if is_passphrase(key.0) {
        return write_passphrase(f, key);
    }
    let keys = Keys(keys_of(part));
    write!(f, "{key}: unknown key; the keys here are {keys}")
}

/// Writes that a key isn't known, and which may be meant.
fn write_unknown<W: fmt::Write>(
    f: &mut fmt::Formatter<W>,
    key: &str,
    part: Part,
    hint: Hint,
) -> fmt::Result
    ensures { DisplaysOnOk W.write_str_gives f.old result (unknown_text key.now part hint) f.new }
{
    let key = KeyText(key);
    match hint {
        Hint::Resembles(meant) => {
            let meant = KeyName(meant);
            write!(f, "{key}: unknown key; did you mean {meant}?")
        }
        Hint::OfTable(_) => write_of_table(f, key, part),
        Hint::OfRoute(_) => write_displaced(f, key, part),
        _ => write_unlike(f, key, part),
    }
}

fn write_missing<W: fmt::Write>(f: &mut fmt::Formatter<W>, key: Key) -> fmt::Result
    ensures { DisplaysOnOk W.write_str_gives f.old result (Some (missing_text key)) f.new }
{
    let (name, allowed) = (KeyName(key), Allowed(key));
    write!(f, "{name} is missing; allowed are {allowed}")
}

fn write_routes_of_another_kind<W: fmt::Write>(
    f: &mut fmt::Formatter<W>,
    value: &str,
    hint: Hint,
) -> fmt::Result
    ensures { DisplaysOnOk W.write_str_gives f.old result (Some (other_routes_text value.now hint)) f.new }
{
    match hint {
        Hint::OneTable => f.write_str(
            "route: each route begins with a line [[route]], in two brackets",
        ),
        Hint::NoTable(number) => {
            write!(
                f,
                "route: value {number} of the list isn't a table; each route begins with a line [[route]]"
            )
        }
        _ => write!(
            f,
            "route = {value}: each route begins with a line [[route]]"
        ),
    }
}

/// Writes that a value is no list of texts.
fn write_no_list<W: fmt::Write>(
    f: &mut fmt::Formatter<W>,
    key: Key,
    value: &str,
    hint: Hint,
) -> fmt::Result
    ensures { DisplaysOnOk W.write_str_gives f.old result (Some (no_list_text key value.now hint)) f.new }
{
    let (name, allowed) = (KeyName(key), Allowed(key));
    match hint {
        Hint::NoText(number) => write!(
            f,
            "{name} = {value}: value {number} of the list isn't a text; allowed are {allowed}"
        ),
        _ => write!(f, "{name} = {value}: not a list; allowed are {allowed}"),
    }
}

/// Writes that a value is no text.
fn write_no_text<W: fmt::Write>(f: &mut fmt::Formatter<W>, key: Key, value: &str) -> fmt::Result
    ensures { DisplaysOnOk W.write_str_gives f.old result (Some (no_text_text key value.now)) f.new }
{
    let (name, allowed) = (KeyName(key), Allowed(key));
    if value.is_empty() {
        return write!(f, "{name}: not a text; allowed are {allowed}");
    }
    write!(f, "{name} = {value}: not a text; allowed are {allowed}")
}

/// What is to be said of a value in quotes.
#[derive(Clone, Copy)]
struct QuotesText(Hint);

impl fmt::Display for QuotesText {
    ghost output = { λ x. Some (quotes_text x.0) };

    fn fmt<W: fmt::Write>(&self, f: &mut fmt::Formatter<W>) -> fmt::Result {
        match self.0 {
            Hint::Quoted => f.write_str("; take the quotes away"),
            _ => f.write_str(""),
        }
    }
}

/// Writes that a value is of another kind.
fn write_wrong_kind<W: fmt::Write>(
    f: &mut fmt::Formatter<W>,
    key: Key,
    value: &str,
    hint: Hint,
) -> fmt::Result
    ensures { DisplaysOnOk W.write_str_gives f.old result (Some (wrong_kind_text key value.now hint)) f.new }
{
    let (name, allowed, more) = (KeyName(key), Allowed(key), QuotesText(hint));
    match key.kind() {
        ValueKind::Table => write!(f, "{name}: they begin with a line [{name}], in one bracket"),
        ValueKind::Tables => write_routes_of_another_kind(f, value, hint),
        ValueKind::Networks => write_no_list(f, key, value, hint),
        ValueKind::Text => write_no_text(f, key, value),
        ValueKind::Boolean => write!(f, "{name} = {value}: allowed are {allowed}{more}"),
        ValueKind::Number => write!(
            f,
            "{name} = {value}: not a whole number; allowed are {allowed}{more}"
        ),
    }
}

fn write_closing<W: fmt::Write>(f: &mut fmt::Formatter<W>, value: &str, opens: i64) -> fmt::Result {
    let first = opens.saturating_add(1);
    let last = Key::CloseRound.limits().most;
    match usize::try_from(first) {
        Ok(first) if first <= last => {
            write!(
                f,
                "close_round = {value}: allowed are {first} to {last}, after open_round"
            )
        }
        _ => write!(
            f,
            "close_round = {value}: no round is left after open_round = {opens}"
        ),
    }
}

/// How many slots may be kept for publishers in a route of this number of sessions.
#[derive(Clone, Copy)]
struct FewSlots(usize);

impl fmt::Display for FewSlots {
    ghost output = { λ x. Some (few_slots_text x.0) };

    #[tactic(auto, unfolding(crate::specs::FaultTexts::few_slots_text))]
    fn fmt<W: fmt::Write>(&self, f: &mut fmt::Formatter<W>) -> fmt::Result {
        let sessions = self.0;
        if sessions <= 1 {
            return f.write_str("allowed is 0");
        }
        let most = sessions - 1;
        write!(f, "allowed are 0 to {most}")
    }
}

/// Writes that too many slots are kept for publishers in a route of few sessions.
#[tactic(auto, unfolding(crate::specs::FaultTexts::reserved_text))]
fn write_reserved<W: fmt::Write>(
    f: &mut fmt::Formatter<W>,
    value: &str,
    sessions: usize,
) -> fmt::Result
    ensures { DisplaysOnOk W.write_str_gives f.old result (Some (reserved_text value.now sessions)) f.new }
{
    let few = FewSlots(sessions);
    write!(
        f,
        "reserved = {value}: {few}, fewer than sessions = {sessions}"
    )
}

/// Writes which values are allowed.
fn write_limited<W: fmt::Write>(f: &mut fmt::Formatter<W>, key: Key, value: &str) -> fmt::Result
    ensures { DisplaysOnOk W.write_str_gives f.old result (Some (limited_text key value.now)) f.new }
{
    let (name, allowed) = (KeyName(key), Allowed(key));
    if value.is_empty() {
        return write!(f, "{name}: allowed are {allowed}");
    }
    write!(f, "{name} = {value}: allowed are {allowed}")
}

/// Writes that a length of keys is of no route that has no passphrase.
fn write_no_passphrase<W: fmt::Write>(
    f: &mut fmt::Formatter<W>,
    key: Key,
    value: &str,
) -> fmt::Result
    ensures { DisplaysOnOk W.write_str_gives f.old result (Some (no_passphrase_text key value.now)) f.new }
{
    let name = KeyName(key);
    write!(
        f,
        "{name} = {value}: it is of a route with a passphrase; write publish_passphrase or request_passphrase, or leave it out"
    )
}

fn write_out_of_range<W: fmt::Write>(
    f: &mut fmt::Formatter<W>,
    key: Key,
    value: &str,
    hint: Hint,
) -> fmt::Result
    ensures { DisplaysOnOk W.write_str_gives f.old result (out_of_range_text key value.now hint) f.new }
{
    let (name, allowed) = (KeyName(key), Allowed(key));
    match hint {
        Hint::Routes(count) => write!(f, "route: there are {count}; allowed are {allowed}"),
        Hint::Opens(opens) => write_closing(f, value, opens),
        Hint::Sessions(sessions) => write_reserved(f, value, sessions),
        Hint::Choice(meant) => {
            write!(
                f,
                "{name} = {value}: allowed are {allowed}; did you mean \"{meant}\"?"
            )
        }
        Hint::Members(count) => write!(f, "{name}: it has {count} values; allowed are {allowed}"),
        Hint::Bytes(count) => write!(f, "{name}: allowed are {allowed}; it has {count}"),
        Hint::NoPassphrase => write_no_passphrase(f, key, value),
        _ => write_limited(f, key, value),
    }
}

/// What is wrong with a name.
#[derive(Clone, Copy)]
struct NameHint(Hint);

impl fmt::Display for NameHint {
    ghost output = { λ x. name_hint_text x.0 };

    fn fmt<W: fmt::Write>(&self, f: &mut fmt::Formatter<W>) -> fmt::Result {
        match self.0 {
            Hint::EmptyName => f.write_str("; it is empty"),
            Hint::LongName(count) => write!(f, "; it has {count} bytes"),
            Hint::Character(it) => write!(f, "; {it:?} is none of these"),
            _ => f.write_str(""),
        }
    }
}

fn write_bad_name<W: fmt::Write>(f: &mut fmt::Formatter<W>, value: &str, hint: Hint) -> fmt::Result
    ensures { DisplaysOnOk W.write_str_gives f.old result (bad_name_text value.now hint) f.new }
{
    let (allowed, wrong) = (Allowed(Key::Name), NameHint(hint));
    write!(f, "name = {value}: allowed are {allowed}{wrong}")
}

fn write_repeated_name<W: fmt::Write>(
    f: &mut fmt::Formatter<W>,
    value: &str,
    hint: Hint,
) -> fmt::Result
    ensures { DisplaysOnOk W.write_str_gives f.old result (Some (repeated_name_text value.now hint)) f.new }
{
    match hint {
        Hint::SameName(number) => write!(f, "name = {value}: route {number} has this name"),
        _ => write!(f, "name = {value}: another route has this name"),
    }
}

/// Writes what is wrong with a secret.
fn write_secret_hint<W: fmt::Write>(f: &mut fmt::Formatter<W>, hint: Hint) -> fmt::Result
    ensures { DisplaysOnOk W.write_str_gives f.old result (Some (secret_hint_text hint)) f.new }
{
    match hint {
        Hint::Characters(count) => write!(f, "; it has {count}"),
        Hint::NoDigit(number) => write!(f, "; its character {number} is none"),
        _ => f.write_str(""),
    }
}

fn write_bad_secret<W: fmt::Write>(f: &mut fmt::Formatter<W>, hint: Hint) -> fmt::Result
    ensures { DisplaysOnOk W.write_str_gives f.old result (Some (bad_secret_text hint)) f.new }
{
    let allowed = Allowed(Key::Secret);
    write!(f, "secret: allowed are {allowed}")?;
    write_secret_hint(f, hint)?;
    f.write_str("; openssl rand -hex 32 makes one")
}

/// Returns an address to put before a port without one.
fn address_before_port(key: Key) -> &'static str
    ensures { result.now ≡ address_before_port key }
{
    match key {
        Key::Status => "127.0.0.1 for this machine alone",
        _ => "0.0.0.0 for all of this machine",
    }
}

/// Writes that a value of a list is an address with a network's length.
fn write_in_network<W: fmt::Write>(
    f: &mut fmt::Formatter<W>,
    key: Key,
    value: &str,
    number: usize,
) -> fmt::Result
    ensures { DisplaysOnOk W.write_str_gives f.old result (Some (in_network_text key value.now number)) f.new }
{
    let name = KeyName(key);
    write!(
        f,
        "{name} = {value}: value {number} of the list is an address with a network's length; "
    )
}

/// Writes a network, and an address in it.
#[tactic(auto, unfolding(crate::specs::FaultTexts::network_text))]
fn write_network<W: fmt::Write>(
    f: &mut fmt::Formatter<W>,
    first: [u8; 16],
    prefix: u32,
    address: [u8; 16],
) -> fmt::Result
    ensures { DisplaysOnOk W.write_str_gives f.old result (Some (network_text first prefix address)) f.new }
{
    let (first, address) = (Address(first), Address(address));
    write!(
        f,
        "the network is \"{first}/{prefix}\", the address alone \"{address}\""
    )
}

/// Writes that a list has a value that is no network.
fn write_bad_network<W: fmt::Write>(
    f: &mut fmt::Formatter<W>,
    key: Key,
    value: &str,
    hint: Hint,
) -> fmt::Result
    ensures { DisplaysOnOk W.write_str_gives f.old result (Some (bad_network_text key value.now hint)) f.new }
{
    let (name, allowed) = (KeyName(key), Allowed(key));
    match hint {
        Hint::AddressInNetwork {
            number,
            address,
            first,
            prefix,
        } => {
            write_in_network(f, key, value, number)?;
            write_network(f, first, prefix, address)
        }
        Hint::NoNetwork(number) => write!(
            f,
            "{name} = {value}: value {number} of the list isn't a network; allowed are {allowed}"
        ),
        _ => write!(f, "{name} = {value}: allowed are {allowed}"),
    }
}

/// Writes what is wrong with an address.
#[tactic(auto, unfolding(crate::specs::FaultTexts::address_hint_text))]
fn write_address_hint<W: fmt::Write>(f: &mut fmt::Formatter<W>, key: Key, hint: Hint) -> fmt::Result
    ensures { DisplaysOnOk W.write_str_gives f.old result (Some (address_hint_text key hint)) f.new }
{
    match hint {
        Hint::NoPort => f.write_str("; the port is missing"),
        Hint::PortAlone => {
            let address = address_before_port(key);
            write!(f, "; the address is missing, {address}")
        }
        Hint::Ipv6 => f.write_str("; an IPv6 address stands in brackets, without a zone"),
        _ => f.write_str(""),
    }
}

/// Writes which address is allowed.
#[tactic(auto, unfolding(crate::specs::FaultTexts::allowed_address_text))]
fn write_allowed_address<W: fmt::Write>(
    f: &mut fmt::Formatter<W>,
    key: Key,
    value: &str,
) -> fmt::Result
    ensures { DisplaysOnOk W.write_str_gives f.old result (Some (allowed_address_text key value.now)) f.new }
{
    let (name, allowed) = (KeyName(key), Allowed(key));
    write!(f, "{name} = {value}: allowed is {allowed}")
}

/// Writes that a value is no address with a port.
fn write_socket_address<W: fmt::Write>(
    f: &mut fmt::Formatter<W>,
    key: Key,
    value: &str,
    hint: Hint,
) -> fmt::Result
    ensures { DisplaysOnOk W.write_str_gives f.old result (Some (socket_address_text key value.now hint)) f.new }
{
    write_allowed_address(f, key, value)?;
    write_address_hint(f, key, hint)
}

fn write_bad_address<W: fmt::Write>(
    f: &mut fmt::Formatter<W>,
    key: Key,
    value: &str,
    hint: Hint,
) -> fmt::Result
    ensures { DisplaysOnOk W.write_str_gives f.old result (Some (bad_address_text key value.now hint)) f.new }
{
    match key.kind() {
        ValueKind::Networks => write_bad_network(f, key, value, hint),
        _ => write_socket_address(f, key, value, hint),
    }
}

/// Writes a fault without its line and its part.
fn write_fault<W: fmt::Write>(
    f: &mut fmt::Formatter<W>,
    fault: &ConfigFault,
    part: Part,
    value: &str,
    hint: Hint,
) -> fmt::Result
    ensures { DisplaysOnOk W.write_str_gives f.old result (fault_text fault.now part value.now hint) f.new }
{
    match fault {
        ConfigFault::Toml => write_text_fault(f, value, hint),
        ConfigFault::UnknownKey(key) => write_unknown(f, key.as_str(), part, hint),
        ConfigFault::Missing(key) => write_missing(f, *key),
        ConfigFault::WrongKind(key) => write_wrong_kind(f, *key, value, hint),
        ConfigFault::OutOfRange(key) => write_out_of_range(f, *key, value, hint),
        ConfigFault::BadName => write_bad_name(f, value, hint),
        ConfigFault::RepeatedName => write_repeated_name(f, value, hint),
        ConfigFault::BadSecret => write_bad_secret(f, hint),
        ConfigFault::BadAddress(key) => write_bad_address(f, *key, value, hint),
        ConfigFault::OutOfMemory => f.write_str("out of memory"),
    }
}

/// A fault without its line and its part.
#[derive(Clone, Copy)]
struct FaultText<'a>(&'a Explanation);

impl fmt::Display for FaultText<'_> {
    ghost output = { λ x. explained_text x.0.now };

    fn fmt<W: fmt::Write>(&self, f: &mut fmt::Formatter<W>) -> fmt::Result {
        let it = self.0;
        write_fault(f, &it.fault, it.part, it.value.as_str(), it.hint)
    }
}

impl fmt::Display for Explanation {
    ghost output = { λ x. explanation_text x };

    fn fmt<W: fmt::Write>(&self, f: &mut fmt::Formatter<W>) -> fmt::Result {
        let (line, part, fault) = (LineText(self.line), PartText(self.part), FaultText(self));
        write!(f, "{line}{part}{fault}")
    }
}

/// How many faults there are besides the first.
#[derive(Clone, Copy)]
struct OthersText(usize);

impl fmt::Display for OthersText {
    ghost output = { λ x. Some (others_text x.0) };

    fn fmt<W: fmt::Write>(&self, f: &mut fmt::Formatter<W>) -> fmt::Result {
        let count = self.0;
        match count {
            0 => f.write_str(""),
            1 => f.write_str("; 1 more fault"),
            _ => write!(f, "; {count} more faults"),
        }
    }
}

impl fmt::Display for Faults {
    ghost output = { λ x. faults_text x };

    fn fmt<W: fmt::Write>(&self, f: &mut fmt::Formatter<W>) -> fmt::Result {
        let first = &self.first;
        let others = OthersText(self.others.len().saturating_add(self.more));
        write!(f, "{first}{others}")
    }
}
