//! The risks of a valid configuration.

ghost use Rattle.std.specs.Prelude.{◌≡◌, ◌++◌, ◌^◌, ◌<◌, map, option_map, string_bytes, IfOk, OnOk};
ghost use Rattle.toml.specs.View.{table_view};
ghost use Rattle.srt_types.specs.Access.{access_of, role_access_of};
ghost use Rattle.srt_types.specs.Terms.{terms_of};
ghost use Rattle.srt_explain.specs.Warnings.{replies_of, packets_of, millis_of, if_live, is_small_outbox, is_small_window, has_one_session};
ghost use Rattle.srt_explain.specs.Warnings.{outbox_warning, window_warning, given, has_example_secret, is_loopback, status_warnings};
ghost use Rattle.srt_explain.specs.Warnings.{number_warnings, has_open_key, key_warnings, has_unused_takeover, has_unused_limit};
ghost use Rattle.srt_explain.specs.Warnings.{is_short, are_same, has_clear_players, short_warnings, pair_warnings, access_warnings};
ghost use Rattle.srt_explain.specs.Warnings.{limit_warning, has_one_unreserved, unreserved_warning, rule_warnings, route_warnings, routes_warnings};
ghost use Rattle.srt_explain.specs.Warnings.{route_table, lacks, advised_slots, lacks_reserved, reserved_warning, lacks_takeover};
ghost use Rattle.srt_explain.specs.Warnings.{default_admission, default_limits, value_warnings};
ghost use Rattle.srt_explain.specs.Warnings.{warnings_of, route_of, names_missing_key};

use crate::grouping::RouteRisk;
use crate::values::{lacks, text_at};
use srt_config::{BindAddress, Config, Key};
use srt_types::{Access, Entry, Mode, Role, RoleAccess, is_mapped};
use std::alloc::{AllocError, Global};
use toml::Table;

/// A risk of a valid configuration, or a key without effect. Routes are numbered from 1.
#[derive(Clone, Copy)]
pub enum Warning {
    /// The secret is the one of examples/gateway.toml.
    ExampleSecret,
    /// The status page is at an address of other machines than this one too: none of 127.0.0.0/8, and not `::1`.
    ExposedStatus {
        /// The address.
        address: BindAddress,
    },
    /// A route's outbox holds fewer replies than one event can produce.
    SmallOutbox {
        /// The route.
        route: usize,
        /// Its outbox, in replies.
        outbox: u32,
        /// The most replies of one event.
        replies: u64,
    },
    /// A live route's window holds fewer packets than a stream of 1 Mbit/s has in its latency and one second more, or
    /// in two seconds.
    SmallWindow {
        /// The route.
        route: usize,
        /// Its window, in packets.
        buffer: u32,
        /// The packets of the stream in that time.
        packets: u64,
        /// The time, in milliseconds.
        millis: u64,
    },
    /// A route has a place for one session alone.
    OneSession {
        /// The route.
        route: usize,
    },
    /// A role of a route has a key and no list of networks: anyone who reads the key in transit can use it from anywhere.
    OpenKey {
        /// The route.
        route: usize,
        /// The role.
        role: Role,
    },
    /// A role of a route has a passphrase of fewer than 16 bytes: who records the opening of a session can find it by trial.
    ShortPassphrase {
        /// The route.
        route: usize,
        /// The role.
        role: Role,
    },
    /// Both roles of a route have the same passphrase: who may receive may publish too.
    SharedPassphrase {
        /// The route.
        route: usize,
    },
    /// The publishers of a route have a passphrase, and its subscribers have none: what is encrypted on its way to the gateway is
    /// sent on in clear.
    ClearPlayers {
        /// The route.
        route: usize,
    },
    /// A route in buffer mode has a time after which the standby publisher takes over: it has no effect there.
    UnusedTakeover {
        /// The route.
        route: usize,
    },
    /// A route allows an IP address as many sessions as it has, or more, so that the limit has no effect.
    UnusedAddressLimit {
        /// The route.
        route: usize,
        /// The sessions of an address.
        limit: u32,
        /// The route's sessions.
        sessions: u32,
    },
    /// A route keeps all of its slots but one for publishers.
    OneUnreserved {
        /// The route.
        route: usize,
        /// The slots that are kept for publishers.
        reserved: u32,
        /// The route's sessions.
        sessions: u32,
    },
    /// A route's table doesn't have `callers`: the route follows the draft to the byte, and nearly all callers use libsrt.
    NoCallers {
        /// The route.
        route: usize,
    },
    /// A route's table doesn't have `reserved`: subscribers may take all slots.
    NoReserved {
        /// The route.
        route: usize,
        /// The slots to keep for publishers.
        slots: u32,
    },
    /// The table of a live route doesn't have `takeover_ms`: the standby waits for the end of the active publisher's session.
    NoTakeover {
        /// The route.
        route: usize,
    },
    /// A route's table doesn't have `resend_percent`: packets are sent again without a limit.
    NoResendLimit {
        /// The route.
        route: usize,
    },
    /// The configuration's file has keys of roles or passphrases, and its mode lets users use it who neither own it nor are in its group.
    PublicFile,
    /// More routes than have their own warning of a risk have it.
    MoreRoutes {
        /// The risk.
        risk: RouteRisk,
        /// How many more there are.
        count: usize,
    },
}

impl Warning {
    /// Returns the number of the route that it is about.
    pub(crate) fn route(self) -> Option<usize>
        ensures { result ≡ route_of self }
    {
        match self {
            Warning::ExampleSecret
            | Warning::ExposedStatus { .. }
            | Warning::PublicFile
            | Warning::MoreRoutes { .. } => None,
            Warning::SmallOutbox { route, .. }
            | Warning::SmallWindow { route, .. }
            | Warning::OneSession { route }
            | Warning::OpenKey { route, .. }
            | Warning::ShortPassphrase { route, .. }
            | Warning::SharedPassphrase { route }
            | Warning::ClearPlayers { route }
            | Warning::UnusedTakeover { route }
            | Warning::UnusedAddressLimit { route, .. }
            | Warning::OneUnreserved { route, .. }
            | Warning::NoCallers { route }
            | Warning::NoReserved { route, .. }
            | Warning::NoTakeover { route }
            | Warning::NoResendLimit { route } => Some(route),
        }
    }

    /// Whether it is about a key that the route's table doesn't have. A run doesn't log these, since they would be
    /// several lines for each route that follows the draft.
    pub fn names_missing_key(self) -> bool
        ensures { result ≡ names_missing_key self }
    {
        match self {
            Warning::NoCallers { .. }
            | Warning::NoReserved { .. }
            | Warning::NoTakeover { .. }
            | Warning::NoResendLimit { .. } => true,
            Warning::MoreRoutes { risk, .. } => risk.is_of_missing_key(),
            _ => false,
        }
    }
}

/// A warning, and the name of its route. Its text, without a line's end, is one line.
#[derive(Clone, Copy)]
pub struct WarningText<'a> {
    /// The warning.
    pub warning: Warning,
    /// The route's name; empty for a warning about no route.
    pub name: &'a str,
}

/// The least number of bytes of a passphrase that isn't short.
const MANY_BYTES: usize = 16;

/// The secret of examples/gateway.toml.
const EXAMPLE_SECRET: &str = "000102030405060708090a0b0c0d0e0f101112131415161718191a1b1c1d1e1f";

fn is_example_secret(table: &Table) -> bool
    ensures { result ≡ has_example_secret (table_view table.now) }
{
    match text_at(table, Key::Secret) {
        Some(text) => text == EXAMPLE_SECRET,
        None => false,
    }
}

/// Returns the most replies of one event of a route.
fn replies_of(entry: &Entry) -> u64
    ensures { result ≡ replies_of (terms_of entry.now) }
{
    4 + 66 * u64::from(entry.sessions)
}

/// Returns the time whose packets a live route's window should hold, in milliseconds.
fn millis_of(entry: &Entry) -> u64
    ensures value { result ≡ millis_of (terms_of entry.now) }
    ensures within { result < 2 ^ 33 }
{
    let millis = u64::from(entry.latency_ms) + 1000;
    if millis < 2000 { 2000 } else { millis }
}

/// Returns the packets of a stream of 1 Mbit/s in that time: 95 a second, each of 1316 bytes.
fn packets_of(entry: &Entry) -> u64
    ensures { result ≡ packets_of (terms_of entry.now) }
{
    (95 * millis_of(entry) + 999) / 1000
}

/// Whether a route's outbox holds fewer replies than one event can produce.
fn is_small_outbox(entry: &Entry) -> bool
    ensures { result ≡ is_small_outbox (terms_of entry.now) }
{
    u64::from(entry.outbox) < replies_of(entry)
}

/// Whether a route is live, and this holds of it.
fn if_live(mode: Mode, holds: bool) -> bool
    ensures { result ≡ if_live mode holds }
{
    match mode {
        Mode::Live => holds,
        Mode::Buffer => false,
    }
}

/// Whether a live route's window holds fewer packets than it should.
fn is_small_window(entry: &Entry) -> bool
    ensures { result ≡ is_small_window (terms_of entry.now) }
{
    if_live(entry.mode, u64::from(entry.buffer) < packets_of(entry))
}

fn has_one_session(entry: &Entry) -> bool
    ensures { result ≡ has_one_session (terms_of entry.now) }
{
    entry.sessions == 1
}

fn outbox_warning(route: usize, entry: &Entry) -> Warning
    ensures { result ≡ outbox_warning route (terms_of entry.now) }
{
    Warning::SmallOutbox {
        route,
        outbox: entry.outbox,
        replies: replies_of(entry),
    }
}

fn window_warning(route: usize, entry: &Entry) -> Warning
    ensures { result ≡ window_warning route (terms_of entry.now) }
{
    Warning::SmallWindow {
        route,
        buffer: entry.buffer,
        packets: packets_of(entry),
        millis: millis_of(entry),
    }
}

/// Adds a warning, if it is to be given.
pub(crate) fn push_if(
    list: &mut Vec<Warning>,
    some: bool,
    warning: Warning,
) -> Result<(), AllocError>
    ensures { OnOk result (list.new.items ≡ list.old.items ++ given some warning) }
{
    if some {
        list.push(warning)?;
    }
    Ok(())
}

/// Adds the warnings about the numbers of the route of this number.
fn push_numbers(list: &mut Vec<Warning>, route: usize, entry: &Entry) -> Result<(), AllocError>
    ensures { OnOk result (list.new.items ≡ list.old.items ++ number_warnings route (terms_of entry.now)) }
{
    push_if(list, is_small_outbox(entry), outbox_warning(route, entry))?;
    push_if(list, is_small_window(entry), window_warning(route, entry))?;
    push_if(list, has_one_session(entry), Warning::OneSession { route })?;
    Ok(())
}

/// Whether a role has a key and no list.
fn has_open_key(access: &RoleAccess) -> bool
    ensures { result ≡ has_open_key (role_access_of access.now) }
{
    access.key.is_some() && access.from.is_none()
}

/// Adds the warnings about the keys of the roles of the route of this number.
fn push_keys(list: &mut Vec<Warning>, route: usize, access: &Access) -> Result<(), AllocError>
    ensures { OnOk result (list.new.items ≡ list.old.items ++ key_warnings route (access_of access.now)) }
{
    let publish = Warning::OpenKey {
        route,
        role: Role::Publish,
    };
    push_if(list, has_open_key(&access.publish), publish)?;
    let request = Warning::OpenKey {
        route,
        role: Role::Request,
    };
    push_if(list, has_open_key(&access.request), request)?;
    Ok(())
}

/// Whether a passphrase is found by trial.
fn is_short(passphrase: &Option<String>) -> bool
    ensures { result ≡ is_short (option_map string_bytes passphrase.now) }
{
    match passphrase {
        Some(text) => text.len() < MANY_BYTES,
        None => false,
    }
}

/// Whether these are the same passphrase.
fn are_same(one: &Option<String>, other: &Option<String>) -> bool
    ensures { result ≡ are_same (option_map string_bytes one.now) (option_map string_bytes other.now) }
{
    match (one, other) {
        (Some(one), Some(other)) => one.as_str() == other.as_str(),
        _ => false,
    }
}

/// Whether what publishers encrypt is sent to subscribers in clear.
fn has_clear_players(access: &Access) -> bool
    ensures { result ≡ has_clear_players (access_of access.now) }
{
    access.publish.passphrase.is_some() && access.request.passphrase.is_none()
}

/// Adds the warnings about each of the passphrases of the roles of the route of this number.
fn push_short(list: &mut Vec<Warning>, route: usize, access: &Access) -> Result<(), AllocError>
    ensures { OnOk result (list.new.items ≡ list.old.items ++ short_warnings route (access_of access.now)) }
{
    let role = Role::Publish;
    let publish = is_short(&access.publish.passphrase);
    push_if(list, publish, Warning::ShortPassphrase { route, role })?;
    let role = Role::Request;
    let request = is_short(&access.request.passphrase);
    push_if(list, request, Warning::ShortPassphrase { route, role })?;
    Ok(())
}

/// Adds the warnings about both of them.
fn push_pair(list: &mut Vec<Warning>, route: usize, access: &Access) -> Result<(), AllocError>
    ensures { OnOk result (list.new.items ≡ list.old.items ++ pair_warnings route (access_of access.now)) }
{
    let same = are_same(&access.publish.passphrase, &access.request.passphrase);
    push_if(list, same, Warning::SharedPassphrase { route })?;
    push_if(
        list,
        has_clear_players(access),
        Warning::ClearPlayers { route },
    )?;
    Ok(())
}

/// Adds the warnings about the keys and the passphrases of the roles of the route of this number.
fn push_access(list: &mut Vec<Warning>, route: usize, access: &Access) -> Result<(), AllocError>
    ensures { OnOk result (list.new.items ≡ list.old.items ++ access_warnings route (access_of access.now)) }
{
    push_keys(list, route, access)?;
    push_short(list, route, access)?;
    push_pair(list, route, access)?;
    Ok(())
}

/// Whether a route in buffer mode has a time of a take-over.
fn has_unused_takeover(entry: &Entry) -> bool
    ensures { result ≡ has_unused_takeover (terms_of entry.now) }
{
    match entry.mode {
        Mode::Live => false,
        Mode::Buffer => entry.rules.takeover_ms.is_some(),
    }
}

/// Whether one address may take all sessions of a route, though there is a limit.
fn has_unused_limit(entry: &Entry) -> bool
    ensures { result ≡ has_unused_limit (terms_of entry.now) }
{
    match entry.rules.sessions_per_address {
        Some(limit) => entry.sessions <= limit,
        None => false,
    }
}

fn limit_warning(route: usize, entry: &Entry) -> Warning
    ensures { result ≡ limit_warning route (terms_of entry.now) }
{
    Warning::UnusedAddressLimit {
        route,
        limit: entry.rules.sessions_per_address.unwrap_or(0),
        sessions: entry.sessions,
    }
}

/// Whether a route keeps slots for publishers, and all but one.
fn has_one_unreserved(entry: &Entry) -> bool
    ensures { result ≡ has_one_unreserved (terms_of entry.now) }
{
    0 < entry.rules.reserved && u64::from(entry.rules.reserved) + 1 == u64::from(entry.sessions)
}

fn unreserved_warning(route: usize, entry: &Entry) -> Warning
    ensures { result ≡ unreserved_warning route (terms_of entry.now) }
{
    Warning::OneUnreserved {
        route,
        reserved: entry.rules.reserved,
        sessions: entry.sessions,
    }
}

/// Adds the warnings about the rules of the route of this number.
fn push_rules(list: &mut Vec<Warning>, route: usize, entry: &Entry) -> Result<(), AllocError>
    ensures { OnOk result (list.new.items ≡ list.old.items ++ rule_warnings route (terms_of entry.now)) }
{
    let takeover = Warning::UnusedTakeover { route };
    push_if(list, has_unused_takeover(entry), takeover)?;
    push_if(list, has_unused_limit(entry), limit_warning(route, entry))?;
    push_if(
        list,
        has_one_unreserved(entry),
        unreserved_warning(route, entry),
    )?;
    Ok(())
}

/// Returns the slots to keep for publishers: two, if two more are left.
fn advised_slots(entry: &Entry) -> u32
    ensures { result ≡ advised_slots (terms_of entry.now) }
{
    entry.sessions.saturating_sub(2).min(2)
}

/// Whether the table of the route of this number has no `reserved`, and the route has slots to keep.
fn lacks_reserved(table: &Table, route: usize, entry: &Entry) -> bool
    ensures { result ≡ lacks_reserved (route_table (table_view table.now) route) (terms_of entry.now) }
{
    lacks(table, route, Key::Reserved) && entry.sessions > 2
}

fn reserved_warning(route: usize, entry: &Entry) -> Warning
    ensures { result ≡ reserved_warning route (terms_of entry.now) }
{
    Warning::NoReserved {
        route,
        slots: advised_slots(entry),
    }
}

/// Whether the table of the live route of this number has no `takeover_ms`.
fn lacks_takeover(table: &Table, route: usize, entry: &Entry) -> bool
    ensures { result ≡ lacks_takeover (route_table (table_view table.now) route) (terms_of entry.now) }
{
    if_live(entry.mode, lacks(table, route, Key::TakeoverMs))
}

/// Adds the warnings about `callers` and `reserved`, if the table of the route of this number leaves them out.
fn push_default_admission(
    list: &mut Vec<Warning>,
    table: &Table,
    route: usize,
    entry: &Entry,
) -> Result<(), AllocError>
    ensures { OnOk result (list.new.items ≡ list.old.items ++ default_admission route (route_table (table_view table.now) route) (terms_of entry.now)) }
{
    let is_draft = lacks(table, route, Key::Callers);
    push_if(list, is_draft, Warning::NoCallers { route })?;
    let is_open = lacks_reserved(table, route, entry);
    push_if(list, is_open, reserved_warning(route, entry))?;
    Ok(())
}

/// Adds the warnings about `takeover_ms` and `resend_percent`, if the table of the route of this number leaves them out.
fn push_default_limits(
    list: &mut Vec<Warning>,
    table: &Table,
    route: usize,
    entry: &Entry,
) -> Result<(), AllocError>
    ensures { OnOk result (list.new.items ≡ list.old.items ++ default_limits route (route_table (table_view table.now) route) (terms_of entry.now)) }
{
    let is_slow = lacks_takeover(table, route, entry);
    push_if(list, is_slow, Warning::NoTakeover { route })?;
    let is_unlimited = lacks(table, route, Key::ResendPercent);
    push_if(list, is_unlimited, Warning::NoResendLimit { route })?;
    Ok(())
}

/// Adds the warnings about the values of the route of this number.
fn push_values(list: &mut Vec<Warning>, route: usize, entry: &Entry) -> Result<(), AllocError>
    ensures { OnOk result (list.new.items ≡ list.old.items ++ value_warnings route (terms_of entry.now)) }
{
    push_numbers(list, route, entry)?;
    push_access(list, route, &entry.access)?;
    push_rules(list, route, entry)?;
    Ok(())
}

/// Adds the warnings about the route of this number in a configuration's table.
fn push_route(
    list: &mut Vec<Warning>,
    table: &Table,
    route: usize,
    entry: &Entry,
) -> Result<(), AllocError>
    ensures { OnOk result (list.new.items ≡ list.old.items ++ route_warnings route (route_table (table_view table.now) route) (terms_of entry.now)) }
{
    push_values(list, route, entry)?;
    push_default_admission(list, table, route, entry)?;
    push_default_limits(list, table, route, entry)?;
    Ok(())
}

/// Adds the warnings about these routes of a configuration's table, which are numbered from 1.
fn push_routes(list: &mut Vec<Warning>, table: &Table, entries: &[Entry]) -> Result<(), AllocError>
    ensures { OnOk result (list.new.items ≡ list.old.items ++ routes_warnings (table_view table.now) 1 (map terms_of entries.now)) }
{
    for at in 0..entries.len() {
        push_route(list, table, at + 1, &entries[at])?;
    }
    Ok(())
}

/// The 16 bytes of `::1`.
const IPV6_LOOPBACK: [u8; 16] = [0, 0, 0, 0, 0, 0, 0, 0, 0, 0, 0, 0, 0, 0, 0, 1];

/// Whether an address is one of this machine alone: one of 127.0.0.0/8, or `::1`.
fn is_loopback(address: BindAddress) -> bool
    ensures { result ≡ is_loopback address }
{
    is_mapped(&address.ip) && address.ip[12] == 127 || address.ip[..] == IPV6_LOOPBACK[..]
}

/// Adds the warning about the address of the status page.
fn push_status(list: &mut Vec<Warning>, status: Option<BindAddress>) -> Result<(), AllocError>
    ensures { OnOk result (list.new.items ≡ list.old.items ++ status_warnings status) }
{
    match status {
        Some(address) => push_if(
            list,
            !is_loopback(address),
            Warning::ExposedStatus { address },
        ),
        None => Ok(()),
    }
}

/// Returns the warnings about a configuration that was read from this table: first those of the keys above the routes,
/// then route by route. Allocates the list.
pub(crate) fn warnings_of(
    alloc: Global,
    table: &Table,
    config: &Config,
) -> Result<Vec<Warning>, AllocError>
    ensures { IfOk result (λ list. list.items ≡ warnings_of (table_view table.now) config.now.status (map terms_of config.now.entries.items)) }
{
    let mut list = Vec::new(alloc);
    push_if(&mut list, is_example_secret(table), Warning::ExampleSecret)?;
    push_status(&mut list, config.status)?;
    push_routes(&mut list, table, config.entries.as_slice())?;
    Ok(list)
}
