//! The rules of a route beyond the draft: the keys in its table.

ghost use Rattle.std.specs.Prelude.{◌≡◌, ◌≤◌};
ghost use Rattle.toml.specs.View.{view, table_view};
ghost use Rattle.srt_config.specs.FirstFault.{seen};
ghost use Rattle.srt_config.specs.Rules.{callers_in, callers_value, callers_at, most_reserved, rules_at};

use super::faults::ConfigFault;
use super::keys::{DRAFT, Key, LIBSRT, Limits};
use super::typed_values::{found_at, optional_number_at, optional_number_within, text_value};
use srt_types::{Callers, Rules};
use toml::{Table, Value};

#[tactic(auto, unfolding(crate::specs::Rules::callers_in))]
fn read_callers(text: &str) -> Result<Callers, ConfigFault>
    ensures { seen (λ c. c) result ≡ callers_in text.now }
{
    if text == DRAFT {
        return Ok(Callers::Draft);
    }
    if text == LIBSRT {
        return Ok(Callers::Libsrt);
    }
    Err(ConfigFault::OutOfRange(Key::Callers))
}

#[tactic(auto, unfolding(crate::specs::Rules::callers_value))]
fn callers_value(value: &Value) -> Result<Callers, ConfigFault>
    ensures { seen (λ c. c) result ≡ callers_value (view value.now) }
{
    read_callers(text_value(Key::Callers, value)?)
}

/// Returns which rules the sessions of the route of a table follow; None if its key is missing.
#[tactic(auto, unfolding(crate::specs::Rules::callers_at))]
pub(crate) fn callers_at(table: &Table) -> Result<Option<Callers>, ConfigFault>
    ensures { seen (λ c. c) result ≡ callers_at (table_view table.now) }
{
    match found_at(table, Key::Callers) {
        Some(value) => Ok(Some(callers_value(value)?)),
        None => Ok(None),
    }
}

/// Returns the greatest number of slots that may be kept for publishers in a route of this number of sessions.
pub(crate) fn most_reserved(sessions: u32) -> usize
    ensures value { result ≡ most_reserved sessions }
    ensures few { result ≤ 2 }
{
    let limits = Key::Reserved.limits();
    limits.most.min((sessions as usize).saturating_sub(1))
}

/// Returns the rules of the route of a table, with this number of sessions, and for these callers.
#[tactic(auto, unfolding(crate::specs::Rules::rules_at))]
pub(crate) fn rules_at(sessions: u32, callers: Callers, table: &Table) -> Result<Rules, ConfigFault>
    ensures { seen (λ r. r) result ≡ rules_at sessions callers (table_view table.now) }
{
    let kept = Limits {
        least: Key::Reserved.limits().least,
        most: most_reserved(sessions),
    };
    let reserved = optional_number_within(table, Key::Reserved, kept)?;
    let sessions_per_address = optional_number_at(table, Key::SessionsPerAddress)?;
    let takeover_ms = optional_number_at(table, Key::TakeoverMs)?;
    let resend_percent = optional_number_at(table, Key::ResendPercent)?;
    Ok(Rules {
        callers,
        reserved: reserved.unwrap_or(0),
        sessions_per_address,
        takeover_ms,
        resend_percent,
    })
}
