//! The faults of entries: a gateway can be opened with 1 to 511 routes, with distinct names and numbers within their
//! limits (our choice).

ghost use Rattle.std.specs.Prelude.{◌≡◌, map};
ghost use Rattle.std.specs.List.{list_any, list_all};
ghost use Rattle.std.specs.Str.{bytes_eq};
ghost use Rattle.srt_types.specs.Terms.{terms_of};
ghost use Rattle.srt_types.specs.Entries.{in_limits};
ghost use Rattle.srt_lobby.specs.Opening.{is_taken, is_fresh, are_names, are_in_limits, fault_of};

use srt_types::product_limits::MAX_ROUTES;
use srt_types::{Entry, OpenFault, is_between, is_name};

fn has_any(name: &[u8], entries: &[Entry]) -> bool
    ensures { result ≡ list_any (λ e. bytes_eq (terms_of e).name name.now) entries.now }
{
    entries.iter().any(|e| e.name.as_bytes() == name)
}

/// Whether one of these entries has this name. Linear in the number of entries. Doesn't allocate.
pub fn is_taken(name: &[u8], entries: &[Entry]) -> bool
    ensures { result ≡ is_taken name.now (map terms_of entries.now) }
{
    has_any(name, entries)
}

fn is_fresh(entry: &Entry, others: &[Entry]) -> bool
    ensures { result ≡ is_fresh (terms_of entry.now) (map terms_of others.now) }
{
    let name = entry.name.as_bytes();
    is_name(name) && !is_taken(name, others)
}

fn are_names(entries: &[Entry]) -> bool
    ensures { result ≡ are_names (map terms_of entries.now) }
{
    let mut rest = entries;
    while !rest.is_empty() {
        let after = &rest[1..];
        if !is_fresh(&rest[0], after) {
            return false;
        }
        rest = after;
    }
    true
}

fn all_in_limits(entries: &[Entry]) -> bool
    ensures { result ≡ list_all (λ e. in_limits (terms_of e)) entries.now }
{
    entries.iter().all(Entry::in_limits)
}

fn are_in_limits(entries: &[Entry]) -> bool
    ensures { result ≡ are_in_limits (map terms_of entries.now) }
{
    is_between(1, MAX_ROUTES, entries.len()) && all_in_limits(entries)
}

/// Returns the first reason, except memory, why a gateway can't be opened with these entries: `Names` if a name is
/// invalid or appears twice, else `Limits` if there are no entries or more than 511, or if a number is outside its
/// limits. Quadratic in the number of entries.
pub fn fault(entries: &[Entry]) -> Option<OpenFault>
    ensures { result ≡ fault_of (map terms_of entries.now) }
{
    if !are_names(entries) {
        return Some(OpenFault::Names);
    }
    if !are_in_limits(entries) {
        return Some(OpenFault::Limits);
    }
    None
}
