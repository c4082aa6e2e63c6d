//! Reads a configuration and explains the result.

ghost use Rattle.std.specs.Prelude.{◌≡◌, ◌⊎◌, ◌∷◌, IfOk, IfErr, IsUtf8, Err, Some, true, [], map};
ghost use Rattle.std.specs.Fmt.InlineText.{inline_text};
ghost use Rattle.toml.specs.Parse.{parse_document};
ghost use Rattle.toml.specs.View.{table_view};
ghost use Rattle.srt_config.specs.FirstFault.{Gives};
ghost use Rattle.srt_config.specs.Config.{settings_at, settings_of, config_in};
ghost use Rattle.srt_config.specs.declared.config.placed.Place.TheVariants as place;
ghost use Rattle.srt_config.specs.FaultPlace.{fault_place, document_place};
ghost use Rattle.srt_config.specs.KeyTable.{is_private};
ghost use Rattle.srt_types.specs.Terms.{terms_of};
ghost use Rattle.srt_explain.specs.Warnings.{route_of, name_at, name_for};
ghost use Rattle.srt_explain.specs.Listing.{first_of, faults_of, HasAll, ArePrivate};
ghost use Rattle.srt_explain.specs.inside.Others.{HasOthers};
ghost use Rattle.srt_explain.specs.Explaining.{plain, place_of, HasPlace, is_fault_private, is_hint_private, IsPrivate, WarnsOf, HasWarnings};

use crate::explanation::{Explanation, Faults, Hint, Part, RouteAt, bare, only_fault};
use crate::grouping::told_warnings;
use crate::hints::{
    of_bad_address, of_kind, of_name, of_range, of_same_name, of_secret, of_text, of_unknown,
};
use crate::lines::{Sought, line_of};
use crate::others::others_in;
use crate::values::{defaults_of, route_at, routes_before, text_or_empty, value_at};
use crate::warnings::{Warning, WarningText};
use srt_config::{Config, ConfigFault, Key, Place, PlacedFault, read_table, with_defaults};
use srt_types::{Entry, is_name};
use std::alloc::Global;
use std::fmt::InlineText;
use std::str;
use toml::{Table, Value};

/// A valid configuration and its warnings.
#[derive(Drop)]
pub struct Explained {
    /// The configuration, as `srt_config::read_config` reads it.
    pub config: Config,
    /// Its warnings: first those of the keys above the routes, then route by route. Of a risk that many routes have the first three
    /// are told, and behind all others how many more routes have it.
    pub warnings: Vec<Warning>,
}

/// Returns the name of the route of this number, counted from 1; empty if there is none.
fn name_at(entries: &[Entry], number: usize) -> &str
    ensures { result.now ≡ name_at number (map terms_of entries.now) }
{
    match entries.get(number.saturating_sub(1)) {
        Some(entry) => entry.name.as_str(),
        None => "",
    }
}

impl Explained {
    /// Returns a warning with what it is printed with: the name of its route.
    pub fn text_of(&self, warning: Warning) -> WarningText<'_>
        ensures warning { result.warning ≡ warning }
        ensures name { result.name.now ≡ name_for (route_of warning) (map terms_of self.now.config.entries.items) }
    {
        let name = match warning.route() {
            Some(number) => name_at(self.config.entries.as_slice(), number),
            None => "",
        };
        WarningText { warning, name }
    }
}

/// Returns the value at a key, as TOML writes it; empty if it is to be printed nowhere.
fn shown(table: &Table, key: Key) -> InlineText<96>
    ensures { is_private key ≡ true → inline_text result ≡ [] }
{
    if key.is_private() {
        return InlineText::new();
    }
    match value_at(table, key) {
        Some(value) => InlineText::of(value),
        None => InlineText::new(),
    }
}

/// The value that is wrong, and what may help.
#[derive(Clone, Copy)]
struct Known {
    value: InlineText<96>,
    hint: Hint,
}

fn only(hint: Hint) -> Known
    ensures value { inline_text result.value ≡ [] }
    ensures hint { result.hint ≡ hint }
{
    Known {
        value: InlineText::new(),
        hint,
    }
}

fn at_key(table: &Table, key: Key, hint: Hint) -> Known
    ensures value { is_private key ≡ true → inline_text result.value ≡ [] }
    ensures hint { result.hint ≡ hint }
{
    Known {
        value: shown(table, key),
        hint,
    }
}

/// Returns what is known of a fault in a table: that of the part that has this place. `before` are the tables of the routes
/// before.
fn known_of(at: &Table, place: Place, before: &[Value], fault: &ConfigFault) -> Known
    ensures value { is_fault_private fault.now ≡ true → inline_text result.value ≡ [] }
    ensures hint { is_fault_private fault.now ≡ true → is_hint_private result.hint ≡ true }
{
    match fault {
        ConfigFault::UnknownKey(key) => only(of_unknown(place, key.as_str())),
        ConfigFault::WrongKind(key) => at_key(at, *key, of_kind(at, *key)),
        ConfigFault::OutOfRange(key) => at_key(at, *key, of_range(at, *key)),
        ConfigFault::BadName => at_key(at, Key::Name, of_name(text_or_empty(at, Key::Name))),
        ConfigFault::RepeatedName => at_key(
            at,
            Key::Name,
            of_same_name(before, text_or_empty(at, Key::Name)),
        ),
        ConfigFault::BadSecret => only(of_secret(text_or_empty(at, Key::Secret))),
        ConfigFault::BadAddress(key) => at_key(at, *key, of_bad_address(at, *key)),
        ConfigFault::Toml | ConfigFault::Missing(_) | ConfigFault::OutOfMemory => {
            only(Hint::Nothing)
        }
    }
}

/// Describes the route of this number, with its name if that has the right form and is no other route's.
fn route_of(number: usize, route: &Table, fault: &ConfigFault) -> RouteAt
    ensures { result.number ≡ number }
{
    let name = match fault {
        ConfigFault::RepeatedName => "",
        _ => text_or_empty(route, Key::Name),
    };
    RouteAt {
        number,
        name: match is_name(name.as_bytes()) {
            true => InlineText::of(name),
            false => InlineText::new(),
        },
    }
}

/// Explains a fault in the part of this place, whose table is `at` if it is there.
fn explained_at(
    at: Option<&Table>,
    place: Place,
    part: Part,
    before: &[Value],
    fault: ConfigFault,
) -> Explanation
    ensures fault { result.fault ≡ fault }
    ensures part { result.part ≡ part }
    ensures private { IsPrivate result }
{
    let known = match at {
        Some(table) => known_of(table, place, before, &fault),
        None => only(Hint::Nothing),
    };
    Explanation {
        fault,
        part,
        line: None,
        value: known.value,
        hint: known.hint,
    }
}

/// Explains a fault of the route of this number.
fn explained_in_route(table: &Table, fault: ConfigFault, number: usize) -> Explanation
    ensures fault { result.fault ≡ fault }
    ensures part { place_of result.part ≡ place.Route number }
    ensures private { IsPrivate result }
{
    let route = route_at(table, number);
    let at = match route {
        Some(route) => route_of(number, route, &fault),
        None => RouteAt {
            number,
            name: InlineText::new(),
        },
    };
    let before = routes_before(table, number);
    explained_at(route, Place::Route(number), Part::Route(at), before, fault)
}

/// Explains the fault of this table.
fn explained_fault(table: &Table, placed: PlacedFault) -> Explanation
    ensures fault { result.fault ≡ placed.fault }
    ensures part { place_of result.part ≡ placed.place }
    ensures private { IsPrivate result }
{
    let PlacedFault { fault, place } = placed;
    match place {
        Place::Route(number) => explained_in_route(table, fault, number),
        Place::Defaults => explained_at(defaults_of(table), place, Part::Defaults, &[], fault),
        Place::Above => explained_at(Some(table), place, Part::Above, &[], fault),
    }
}

/// Explains the fault of the table of this text, with its line.
pub(crate) fn explained_line(text: &str, table: &Table, placed: PlacedFault) -> Explanation
    ensures fault { result.fault ≡ placed.fault }
    ensures part { place_of result.part ≡ placed.place }
    ensures private { IsPrivate result }
{
    let line = line_of(
        text.as_bytes(),
        Sought {
            place: placed.place,
            key: placed.fault.key().as_bytes(),
        },
    );
    let mut explanation = explained_fault(table, placed);
    explanation.line = line;
    explanation
}

/// Reads the configuration in the table of this text, whose routes have the defaults that they lack, with its warnings, or explains
/// its first fault.
fn explain_table(alloc: Global, text: &str, table: &Table) -> Result<Explained, Explanation>
    ensures gives { Gives settings_of (plain result) (settings_at (table_view table.now)) }
    ensures place { HasPlace (fault_place (table_view table.now)) result }
    ensures private { IfErr result IsPrivate }
    ensures warnings { IfOk result (WarnsOf (table_view table.now)) }
{
    let config = match read_table(alloc, table) {
        Ok(config) => config,
        Err(placed) => return Err(explained_line(text, table, placed)),
    };
    match told_warnings(alloc, table, &config) {
        Ok(warnings) => Ok(Explained { config, warnings }),
        Err(_) => Err(bare(ConfigFault::OutOfMemory)),
    }
}

/// Explains a text that isn't TOML from this place on, with the message of its reader.
fn explained_text(text: &[u8], at: usize, message: &str) -> Explanation
    ensures fault { result.fault ≡ ConfigFault.Toml }
    ensures part { result.part ≡ Part.Above }
{
    Explanation {
        fault: ConfigFault::Toml,
        part: Part::Above,
        line: None,
        value: InlineText::of(message),
        hint: of_text(text, at),
    }
}

/// The same of a table as it was written.
fn explain_written(alloc: Global, text: &str, table: Table) -> Result<Explained, Explanation>
    ensures gives { Gives settings_of (plain result) (config_in (Some (table_view table))) }
    ensures place { HasPlace (document_place (Some (table_view table))) result }
    ensures private { IfErr result IsPrivate }
    ensures warnings { IfOk result (HasWarnings (Some (table_view table))) }
{
    match with_defaults(alloc, table) {
        Ok(whole) => explain_table(alloc, text, &whole),
        Err(_) => Err(bare(ConfigFault::OutOfMemory)),
    }
}

/// Reads the configuration in a text with its warnings, or explains its first fault.
fn explain_text(alloc: Global, text: &str) -> Result<Explained, Explanation>
    ensures gives { Gives settings_of (plain result) (config_in (parse_document text.now)) }
    ensures place { HasPlace (document_place (parse_document text.now)) result }
    ensures private { IfErr result IsPrivate }
    ensures warnings { IfOk result (HasWarnings (parse_document text.now)) }
{
    match toml::table_from_str(alloc, text) {
        Ok(table) => explain_written(alloc, text, table),
        Err(error) if error.is_memory() => Err(bare(ConfigFault::OutOfMemory)),
        Err(error) => {
            let at = match error.span() {
                Some(span) => span.start,
                None => 0,
            };
            Err(explained_text(text.as_bytes(), at, error.message()))
        }
    }
}

/// Reads a configuration from the bytes of its file with its warnings, or explains its first fault.
fn explain_first(alloc: Global, bytes: &[u8]) -> Result<Explained, Explanation>
    ensures gives { IsUtf8 bytes.now → Gives settings_of (plain result) (config_in (parse_document bytes.now)) }
    ensures no_text { ¬ (IsUtf8 bytes.now) → plain result ≡ Err ConfigFault.Toml }
    ensures place { IsUtf8 bytes.now → HasPlace (document_place (parse_document bytes.now)) result }
    ensures private { IfErr result IsPrivate }
    ensures warnings { IfOk result (HasWarnings (parse_document bytes.now)) }
{
    match str::from_utf8(bytes) {
        Ok(text) => explain_text(alloc, text),
        Err(error) => {
            let at = error.valid_up_to();
            Err(explained_text(bytes, at, "these bytes are not UTF-8"))
        }
    }
}

/// Joins a fault of the configuration in this text, its first, with its other ones. Out of memory, if these can't be listed.
#[tactic(auto, using(crate::proofs::Told::alone_private))]
fn with_others(alloc: Global, text: &str, first: Explanation) -> Faults
    ensures first { (result.first ≡ first) ⊎ (result.first.fault ≡ ConfigFault.OutOfMemory) }
    ensures others { (result.first.fault ≡ ConfigFault.OutOfMemory) ⊎ HasOthers (faults_of (parse_document text.now)) result }
    ensures private { IsPrivate first → ArePrivate (result.first ∷ result.others.items) }
{
    match others_in(alloc, text) {
        Ok(others) => Faults {
            first,
            others: others.explained,
            more: others.more,
        },
        Err(_) => only_fault(alloc, bare(ConfigFault::OutOfMemory)),
    }
}

/// Joins a fault of the configuration in these bytes, its first, with its other ones.
#[tactic(auto, using(crate::proofs::Told::alone_private))]
fn faults_in(alloc: Global, bytes: &[u8], first: Explanation) -> Faults
    ensures first { (result.first ≡ first) ⊎ (result.first.fault ≡ ConfigFault.OutOfMemory) }
    ensures no_text { ¬ (IsUtf8 bytes.now) → result.first ≡ first }
    ensures others { IsUtf8 bytes.now → (result.first.fault ≡ ConfigFault.OutOfMemory) ⊎ HasOthers (faults_of (parse_document bytes.now)) result }
    ensures private { IsPrivate first → ArePrivate (result.first ∷ result.others.items) }
{
    match str::from_utf8(bytes) {
        Ok(text) => with_others(alloc, text, first),
        Err(_) => only_fault(alloc, first),
    }
}

/// Reads a configuration from the bytes of its file, and explains the result: the risks of a valid one, or else its faults. Without the
/// explanation that is the result of `srt_config::read_config` for the text, and its fault `Toml` for bytes that aren't UTF-8. The first
/// 20 faults are explained, in the order of `srt_config::all_faults`. Allocates as `read_config` does, and the list of warnings; for a
/// configuration with faults once more as much, and their list. If an allocation fails, the result can be the fault `OutOfMemory` instead
/// of any other.
#[tactic(auto, using(crate::proofs::Told::gives_first, crate::proofs::Told::place_first))]
pub fn explain(alloc: Global, bytes: &[u8]) -> Result<Explained, Faults>
    ensures gives { IsUtf8 bytes.now → Gives settings_of (plain (first_of result)) (config_in (parse_document bytes.now)) }
    ensures no_text { ¬ (IsUtf8 bytes.now) → plain (first_of result) ≡ Err ConfigFault.Toml }
    ensures place { IsUtf8 bytes.now → HasPlace (document_place (parse_document bytes.now)) (first_of result) }
    ensures all { IsUtf8 bytes.now → IfErr result (HasAll (faults_of (parse_document bytes.now))) }
    ensures private { IfErr result (λ faults. ArePrivate (faults.first ∷ faults.others.items)) }
    ensures warnings { IfOk result (HasWarnings (parse_document bytes.now)) }
{
    match explain_first(alloc, bytes) {
        Ok(explained) => Ok(explained),
        Err(first) => Err(faults_in(alloc, bytes, first)),
    }
}
