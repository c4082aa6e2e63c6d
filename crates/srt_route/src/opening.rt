//! Checks of an entry with which a route is opened.

ghost use Rattle.std.specs.Prelude.{◌≡◌, length};
ghost use Rattle.std.specs.Result.{result_err};
ghost use Rattle.srt_types.specs.Terms.{terms_of};
ghost use Rattle.srt_route.specs.Opening.{fault_of, fault_at_rest};
ghost use Rattle.srt_route.specs.RouteKeys.{has_secured_role};

use srt_types::product_limits::MAX_ROUTES;
use srt_types::protocol_limits::MOMENT_END;
use srt_types::{Entry, OpenFault, is_name};

/// Checks whether a route with this index can be opened with the entry, memory aside. The error is the first fault that
/// applies: `Names` for the name, then `Limits` for the index and the numbers.
pub fn check_entry(entry: &Entry, index: usize) -> Result<(), OpenFault>
    ensures { result_err result ≡ fault_of (terms_of entry.now) index }
{
    if !is_name(entry.name.as_bytes()) {
        return Err(OpenFault::Names);
    }
    if index >= MAX_ROUTES || !entry.in_limits() {
        return Err(OpenFault::Limits);
    }
    Ok(())
}

/// Whether sessions of any role of a route with this entry are encrypted.
pub fn has_secured_role(entry: &Entry) -> bool
    ensures { result ≡ has_secured_role (terms_of entry.now) }
{
    entry.access.publish.is_secured() || entry.access.request.is_secured()
}

/// Checks whether a route with this index can be opened at rest with the entry, this clock and these generations, memory
/// aside. The error is the first fault that applies: that of `check_entry`, then `Limits` for an entry with a passphrase,
/// since keys aren't handed over, for a number of generations other than the number of sessions, or for a clock of 2^62
/// or more.
pub fn check_rest(
    entry: &Entry,
    index: usize,
    clock: u64,
    generations: &[u16],
) -> Result<(), OpenFault>
    ensures { result_err result ≡ fault_at_rest (terms_of entry.now) index clock (length generations.now) }
{
    check_entry(entry, index)?;
    if has_secured_role(entry) {
        return Err(OpenFault::Limits);
    }
    if generations.len() != entry.sessions as usize || clock >= MOMENT_END {
        return Err(OpenFault::Limits);
    }
    Ok(())
}
