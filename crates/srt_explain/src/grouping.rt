//! Warnings that many routes have in common: the first ones are told, and the number of the others.

ghost use Rattle.std.specs.Prelude.{◌≡◌, ◌++◌, [], map, IfOk, OnOk};
ghost use Rattle.std.specs.List.{flat_map, count_by};
ghost use Rattle.srt_explain.specs.Warnings.{given, is_of_missing_key, warnings_of};
ghost use Rattle.srt_types.specs.Terms.{terms_of};
ghost use Rattle.toml.specs.View.{table_view};
ghost use Rattle.srt_explain.specs.Grouping.{risk_number, risk_key, risk_of, has_risk, count_of, is_told, told_by, first_ones, more_of, all_risks, grouped};

use crate::warnings::{Warning, push_if, warnings_of};
use srt_config::Config;
use srt_types::Role;
use std::alloc::{AllocError, Global};
use toml::Table;

/// What a warning tells of a route, whatever its values are.
#[derive(Clone, Copy)]
pub enum RouteRisk {
    /// Its outbox holds fewer replies than one event can produce.
    SmallOutbox,
    /// Its window holds fewer packets than it should.
    SmallWindow,
    /// It has a place for one session alone.
    OneSession,
    /// Publishers have a key and no list.
    OpenPublishKey,
    /// Subscribers have a key and no list.
    OpenRequestKey,
    /// The passphrase of publishers is short.
    ShortPublishPassphrase,
    /// The passphrase of subscribers is short.
    ShortRequestPassphrase,
    /// Publishers and subscribers have the same passphrase.
    SharedPassphrase,
    /// What publishers encrypt is sent to subscribers in clear.
    ClearPlayers,
    /// Its `takeover_ms` has no effect.
    UnusedTakeover,
    /// Its `sessions_per_address` has no effect.
    UnusedAddressLimit,
    /// All of its slots but one are kept for publishers.
    OneUnreserved,
    /// Its table doesn't have `callers`.
    NoCallers,
    /// Its table doesn't have `reserved`.
    NoReserved,
    /// Its table doesn't have `takeover_ms`.
    NoTakeover,
    /// Its table doesn't have `resend_percent`.
    NoResendLimit,
}

impl RouteRisk {
    /// Whether it is that a key is missing.
    pub(crate) fn is_of_missing_key(self) -> bool
        ensures { result ≡ is_of_missing_key self }
    {
        match self {
            RouteRisk::NoCallers
            | RouteRisk::NoReserved
            | RouteRisk::NoTakeover
            | RouteRisk::NoResendLimit => true,
            _ => false,
        }
    }
}

/// All of them, in the order of warnings.
const RISKS: [RouteRisk; 16] = [
    RouteRisk::SmallOutbox,
    RouteRisk::SmallWindow,
    RouteRisk::OneSession,
    RouteRisk::OpenPublishKey,
    RouteRisk::OpenRequestKey,
    RouteRisk::ShortPublishPassphrase,
    RouteRisk::ShortRequestPassphrase,
    RouteRisk::SharedPassphrase,
    RouteRisk::ClearPlayers,
    RouteRisk::UnusedTakeover,
    RouteRisk::UnusedAddressLimit,
    RouteRisk::OneUnreserved,
    RouteRisk::NoCallers,
    RouteRisk::NoReserved,
    RouteRisk::NoTakeover,
    RouteRisk::NoResendLimit,
];

/// The most warnings of one risk that are told in full.
const MAX_TOLD: usize = 3;

/// The number of a risk, of which each has its own.
fn risk_number(risk: RouteRisk) -> u8
    ensures { result ≡ risk_number risk }
{
    match risk {
        RouteRisk::SmallOutbox => 0,
        RouteRisk::SmallWindow => 1,
        RouteRisk::OneSession => 2,
        RouteRisk::OpenPublishKey => 3,
        RouteRisk::OpenRequestKey => 4,
        RouteRisk::ShortPublishPassphrase => 5,
        RouteRisk::ShortRequestPassphrase => 6,
        RouteRisk::SharedPassphrase => 7,
        RouteRisk::ClearPlayers => 8,
        RouteRisk::UnusedTakeover => 9,
        RouteRisk::UnusedAddressLimit => 10,
        RouteRisk::OneUnreserved => 11,
        RouteRisk::NoCallers => 12,
        RouteRisk::NoReserved => 13,
        RouteRisk::NoTakeover => 14,
        RouteRisk::NoResendLimit => 15,
    }
}

/// The key that a risk is about.
pub(crate) fn risk_key(risk: RouteRisk) -> &'static str
    ensures { result.now ≡ risk_key risk }
{
    match risk {
        RouteRisk::SmallOutbox => "outbox",
        RouteRisk::SmallWindow => "buffer",
        RouteRisk::OneSession => "sessions",
        RouteRisk::OpenPublishKey => "publish_key",
        RouteRisk::OpenRequestKey => "request_key",
        RouteRisk::ShortPublishPassphrase => "publish_passphrase",
        RouteRisk::ShortRequestPassphrase => "request_passphrase",
        RouteRisk::SharedPassphrase => "request_passphrase",
        RouteRisk::ClearPlayers => "publish_passphrase",
        RouteRisk::UnusedTakeover => "takeover_ms",
        RouteRisk::UnusedAddressLimit => "sessions_per_address",
        RouteRisk::OneUnreserved => "reserved",
        RouteRisk::NoCallers => "callers",
        RouteRisk::NoReserved => "reserved",
        RouteRisk::NoTakeover => "takeover_ms",
        RouteRisk::NoResendLimit => "resend_percent",
    }
}

/// The risk that a warning tells of; None if it is about no route or about several.
fn risk_of(warning: Warning) -> Option<RouteRisk>
    ensures { result ≡ risk_of warning }
{
    match warning {
        Warning::ExampleSecret
        | Warning::ExposedStatus { .. }
        | Warning::PublicFile
        | Warning::MoreRoutes { .. } => None,
        Warning::SmallOutbox { .. } => Some(RouteRisk::SmallOutbox),
        Warning::SmallWindow { .. } => Some(RouteRisk::SmallWindow),
        Warning::OneSession { .. } => Some(RouteRisk::OneSession),
        Warning::OpenKey {
            role: Role::Publish,
            ..
        } => Some(RouteRisk::OpenPublishKey),
        Warning::OpenKey {
            role: Role::Request,
            ..
        } => Some(RouteRisk::OpenRequestKey),
        Warning::ShortPassphrase {
            role: Role::Publish,
            ..
        } => Some(RouteRisk::ShortPublishPassphrase),
        Warning::ShortPassphrase {
            role: Role::Request,
            ..
        } => Some(RouteRisk::ShortRequestPassphrase),
        Warning::SharedPassphrase { .. } => Some(RouteRisk::SharedPassphrase),
        Warning::ClearPlayers { .. } => Some(RouteRisk::ClearPlayers),
        Warning::UnusedTakeover { .. } => Some(RouteRisk::UnusedTakeover),
        Warning::UnusedAddressLimit { .. } => Some(RouteRisk::UnusedAddressLimit),
        Warning::OneUnreserved { .. } => Some(RouteRisk::OneUnreserved),
        Warning::NoCallers { .. } => Some(RouteRisk::NoCallers),
        Warning::NoReserved { .. } => Some(RouteRisk::NoReserved),
        Warning::NoTakeover { .. } => Some(RouteRisk::NoTakeover),
        Warning::NoResendLimit { .. } => Some(RouteRisk::NoResendLimit),
    }
}

/// Whether a warning tells of this risk.
fn has_risk(risk: RouteRisk, warning: Warning) -> bool
    ensures { result ≡ has_risk risk warning }
{
    match risk_of(warning) {
        Some(other) => risk_number(other) == risk_number(risk),
        None => false,
    }
}

/// How many of these tell of this risk.
#[tactic(auto, using(std::proofs::lemmas::List::Sums::count_by_more_yes, std::proofs::lemmas::List::Sums::count_by_more_no))]
fn count_of(warnings: &[Warning], risk: RouteRisk) -> usize
    ensures { result ≡ count_of warnings.now risk }
{
    let mut count = 0usize;
    for warning in warnings {
        if has_risk(risk, *warning) {
            count = count.saturating_add(1);
        }
    }
    count
}

/// Whether a warning is told in full behind these.
fn is_told(before: &[Warning], warning: Warning) -> bool
    ensures { result ≡ is_told before.now warning }
{
    match risk_of(warning) {
        Some(risk) => count_of(before, risk) < MAX_TOLD,
        None => true,
    }
}

/// Adds those of these warnings that are told in full.
#[tactic(auto, using(crate::proofs::Grouped::one_more))]
fn push_first_ones(list: &mut Vec<Warning>, warnings: &[Warning]) -> Result<(), AllocError>
    ensures { OnOk result (list.new.items ≡ list.old.items ++ first_ones [] warnings.now) }
{
    for at in 0..warnings.len() {
        let told = is_told(&warnings[..at], warnings[at]);
        push_if(list, told, warnings[at])?;
    }
    Ok(())
}

/// Adds how many warnings of this risk aren't told in full, if there are any.
fn push_more(
    list: &mut Vec<Warning>,
    warnings: &[Warning],
    risk: RouteRisk,
) -> Result<(), AllocError>
    ensures { OnOk result (list.new.items ≡ list.old.items ++ more_of warnings.now risk) }
{
    let count = count_of(warnings, risk);
    push_if(
        list,
        count > MAX_TOLD,
        Warning::MoreRoutes {
            risk,
            count: count.saturating_sub(MAX_TOLD),
        },
    )
}

/// Adds the same of each of these risks.
#[tactic(auto, using(crate::proofs::Grouped::next_risk))]
fn push_each_more(
    list: &mut Vec<Warning>,
    warnings: &[Warning],
    risks: &[RouteRisk],
) -> Result<(), AllocError>
    ensures { OnOk result (list.new.items ≡ list.old.items ++ flat_map (more_of warnings.now) risks.now) }
{
    for risk in risks {
        push_more(list, warnings, *risk)?;
    }
    Ok(())
}

/// Returns these warnings, of each risk of routes the first three, and behind them how many others there are of it. Allocates the list;
/// its time grows with the square of the number of warnings, at most some thousands.
fn grouped(alloc: Global, warnings: &[Warning]) -> Result<Vec<Warning>, AllocError>
    ensures { IfOk result (λ list. list.items ≡ grouped warnings.now) }
{
    let mut list = Vec::new(alloc);
    push_first_ones(&mut list, warnings)?;
    push_each_more(&mut list, warnings, &RISKS)?;
    Ok(list)
}

/// Returns the warnings about a configuration that was read from this table, as [`warnings_of`] finds them, but of each risk of routes
/// the first three, and behind all how many others there are of it. Allocates both lists.
pub(crate) fn told_warnings(
    alloc: Global,
    table: &Table,
    config: &Config,
) -> Result<Vec<Warning>, AllocError>
    ensures { IfOk result
        (λ list. list.items ≡ grouped (warnings_of (table_view table.now) config.now.status (map terms_of config.now.entries.items))) }
{
    let all = warnings_of(alloc, table, config)?;
    grouped(alloc, all.as_slice())
}
