//! Missing keys that a misspelled one may be: of these the misspelled one alone is told.

ghost use Rattle.std.specs.Prelude.{◌≡◌, [], IfOk, OnOk};
ghost use Rattle.std.specs.List.{list_any};
ghost use Rattle.srt_config.specs.declared.config.placed.PlacedFault.{PlacedFault as ThePlaced};
ghost use Rattle.srt_config.specs.AllFaults.{placed_seen, faults_seen};
ghost use Rattle.srt_config.specs.FirstFault.{plain_fault};
ghost use Rattle.srt_explain.specs.Misspelled.{meant_at, reaches, is_key_of, may_be, is_told, with_fault, with_faults};

use crate::explanation::Hint;
use crate::hints::of_unknown;
use srt_config::{ConfigFault, Key, Place, PlacedFault};
use std::alloc::{AllocError, Global};

/// Returns the key that the unknown key of a fault may be; None if it resembles none, or if the fault is another one.
fn meant_at(it: &PlacedFault) -> Option<Key>
    ensures { result ≡ meant_at it.now.place (plain_fault it.now.fault) }
{
    match &it.fault {
        ConfigFault::UnknownKey(text) => match of_unknown(it.place, text.as_str()) {
            Hint::Resembles(key) => Some(key),
            _ => None,
        },
        _ => None,
    }
}

/// Whether a key that is written at the first part is one of the second: it is that part, or a route that has the defaults.
fn reaches(written: Place, at: Place) -> bool
    ensures { result ≡ reaches written at }
{
    match (written, at) {
        (Place::Above, Place::Above)
        | (Place::Defaults, Place::Defaults)
        | (Place::Defaults, Place::Route(_)) => true,
        (Place::Route(number), Place::Route(other)) => number == other,
        _ => false,
    }
}

/// Whether this is that key.
fn is_key_of(found: Option<Key>, key: Key) -> bool
    ensures { result ≡ is_key_of found key }
{
    match found {
        Some(other) => other.name() == key.name(),
        None => false,
    }
}

/// Whether a fault is of an unknown key that may be this one, which is missing at this part.
fn may_be(it: &PlacedFault, at: Place, key: Key) -> bool
    ensures { result ≡ may_be at key (placed_seen it.now) }
{
    reaches(it.place, at) && is_key_of(meant_at(it), key)
}

/// Whether one of these faults is of an unknown key that may be this one, which is missing at this part.
fn any_may_be(before: &[PlacedFault], at: Place, key: Key) -> bool
    ensures { result ≡ list_any (λ (it : ThePlaced). may_be at key (placed_seen it)) before.now }
{
    before.iter().any(|it| may_be(it, at, key))
}

/// Whether a fault is that of a missing key, which one of these faults tells already, as a misspelled one.
#[tactic(auto, using(crate::proofs::Meant::any_seen))]
fn is_told(before: &[PlacedFault], it: &PlacedFault) -> bool
    ensures { result ≡ is_told (faults_seen before.now) (placed_seen it.now) }
{
    match &it.fault {
        ConfigFault::Missing(key) => any_may_be(before, it.place, *key),
        _ => false,
    }
}

/// Adds a fault to those that are told, unless it is told already.
#[tactic(auto, using(crate::proofs::Meant::added))]
fn push_untold(list: &mut Vec<PlacedFault>, it: PlacedFault) -> Result<(), AllocError>
    ensures { OnOk result (faults_seen list.new.items ≡ with_fault (faults_seen list.old.items) (placed_seen it)) }
{
    if is_told(list.as_slice(), &it) {
        return Ok(());
    }
    list.push(it)?;
    Ok(())
}

/// Returns these faults without those of missing keys that a misspelled one before them may be. Allocates the list; its time grows with
/// the product of the numbers of faults and of missing keys.
pub(crate) fn told_faults(
    alloc: Global,
    faults: Vec<PlacedFault>,
) -> Result<Vec<PlacedFault>, AllocError>
    ensures { IfOk result (λ list. faults_seen list.items ≡ with_faults [] (faults_seen faults.items)) }
{
    let count = faults.len();
    let mut list = Vec::new(alloc);
    let mut rest = faults.into_iter();
    for at in 0..count {
        let Some(placed) = rest.next() else {
            return Ok(list);
        };
        push_untold(&mut list, placed)?;
    }
    Ok(list)
}
