//! What an explanation consists of.

ghost use Rattle.std.specs.Prelude.{◌≡◌, []};
ghost use Rattle.std.specs.Fmt.InlineText.{inline_text};

use crate::places::TextPlace;
use srt_config::{ConfigFault, Key};
use std::alloc::Global;
use std::fmt::InlineText;

/// A route of a configuration.
#[derive(Clone, Copy)]
pub struct RouteAt {
    /// Its place among the routes, counted from 1.
    pub number: usize,
    /// Its name; empty if it has none of the right form.
    pub name: InlineText<64>,
}

/// The part of a configuration that has a fault.
#[derive(Clone, Copy)]
pub enum Part {
    /// The keys above the routes, or the list of the routes as a whole.
    Above,
    /// The table of defaults.
    Defaults,
    /// A route, with the defaults that it lacks.
    Route(RouteAt),
}

/// What may help to fix a fault.
#[derive(Clone, Copy)]
pub enum Hint {
    /// No hint.
    Nothing,
    /// The text can't be read from this place on.
    Place(TextPlace),
    /// The same, and a text without quotes is there.
    Unquoted(TextPlace),
    /// The same, in the second line `[route]`.
    OneBracket(TextPlace),
    /// A key of the same table resembles the one that is unknown.
    Resembles(Key),
    /// The unknown key is one of the table, which come before the routes.
    OfTable(Key),
    /// The unknown key is one of a route.
    OfRoute(Key),
    /// A number or a truth value is in quotes.
    Quoted,
    /// The routes are written as one table.
    OneTable,
    /// The value of this number, counted from 1, in the list of routes isn't a table.
    NoTable(usize),
    /// There are this many routes.
    Routes(usize),
    /// This one of the key's two texts may be meant.
    Choice(&'static str),
    /// The route opens in this round.
    Opens(i64),
    /// The route has this number of sessions, so that it can't keep as many slots for publishers as another one could.
    Sessions(usize),
    /// The name is empty.
    EmptyName,
    /// The name has this many bytes.
    LongName(usize),
    /// The name has this character.
    Character(char),
    /// The route of this number, counted from 1, has the same name.
    SameName(usize),
    /// The passphrase has this many bytes.
    Bytes(usize),
    /// The length of keys is in a route without a passphrase.
    NoPassphrase,
    /// The secret has this many characters.
    Characters(usize),
    /// The character of this number, counted from 1, is no hexadecimal digit.
    NoDigit(usize),
    /// The address has no port.
    NoPort,
    /// The address has a port alone.
    PortAlone,
    /// The address is one of IPv6, in the wrong form.
    Ipv6,
    /// The list has this many values.
    Members(usize),
    /// The value of this number, counted from 1, in the list isn't a text.
    NoText(usize),
    /// The value of this number, counted from 1, in the list isn't a network.
    NoNetwork(usize),
    /// The same, and it is an address of this network with the network's length.
    AddressInNetwork {
        /// The number of the value, counted from 1.
        number: usize,
        /// The address that is written. An IPv4 address is `::ffff:a.b.c.d`.
        address: [u8; 16],
        /// The network's first address.
        first: [u8; 16],
        /// The number of first bits that the network's addresses have in common.
        prefix: u32,
    },
}

/// A fault of a configuration, with what a person needs to fix it. Its text, without a line's end, is one line.
#[derive(Drop)]
pub struct Explanation {
    /// The fault.
    pub fault: ConfigFault,
    /// The part that has it.
    pub part: Part,
    /// The line of its key, counted from 1, or the one with which the part begins if the key isn't written there; None at the fault
    /// `Toml`, whose place is in the hint, and if the part isn't written in lines of its own.
    pub line: Option<usize>,
    /// The value that is wrong, as TOML writes it, or its beginning; at the fault `Toml` the message of the TOML reader.
    /// Empty if there is none, and for an unknown key, the secret, the keys and the passphrases of roles, which are printed nowhere.
    pub value: InlineText<96>,
    /// What may help.
    pub hint: Hint,
}

/// The faults of a configuration. Their text, without a line's end, is one line: the first, and how many others there are.
#[derive(Drop)]
pub struct Faults {
    /// The first, as `srt_config::read_config` returns it.
    pub first: Explanation,
    /// The next ones, 19 at most, in the order of `srt_config::all_faults`.
    pub others: Vec<Explanation>,
    /// How many there are beyond these.
    pub more: usize,
}

impl Faults {
    /// Returns the first fault alone.
    pub fn into_fault(self) -> ConfigFault
        ensures { result ≡ self.first.fault }
    {
        let Faults {
            first,
            others: _,
            more: _,
        } = self;
        first.into_fault()
    }
}

impl Explanation {
    /// Returns the fault alone.
    fn into_fault(self) -> ConfigFault
        ensures { result ≡ self.fault }
    {
        let Explanation {
            fault,
            part: _,
            line: _,
            value: _,
            hint: _,
        } = self;
        fault
    }
}

/// Returns a fault of which nothing more is known.
pub(crate) fn bare(fault: ConfigFault) -> Explanation
    ensures fault { result.fault ≡ fault }
    ensures value { inline_text result.value ≡ [] }
    ensures hint { result.hint ≡ Hint.Nothing }
{
    Explanation {
        fault,
        part: Part::Above,
        line: None,
        value: InlineText::new(),
        hint: Hint::Nothing,
    }
}

/// Returns this fault, without others.
pub(crate) fn only_fault(alloc: Global, first: Explanation) -> Faults
    ensures first { result.first ≡ first }
    ensures others { result.others.items ≡ [] }
{
    Faults {
        first,
        others: Vec::new(alloc),
        more: 0,
    }
}
