//! The indexes that routes have in a run, and what a changed configuration does to them: each route that opens gets the
//! next one, and none is used again.

ghost use Rattle.std.specs.Prelude.{◌≡◌, ◌≤◌, [], length, vec_len, vec_capacity};
ghost use Rattle.srt_types.specs.Terms.{terms_of};
ghost use Rattle.srt_watch.specs.Indexes.{index_at, index_of, next_after, indexes_from, opens, mark_of, reaches_mark, megabytes_of};

use srt_config::RouteChange;
use srt_types::Entry;

/// Returns the index of the route at a place. Callers pass places of routes alone.
pub(crate) fn index_at(indexes: &[usize], place: usize) -> usize
    ensures { result ≡ index_at indexes.now place }
{
    match indexes.get(place) {
        Some(index) => *index,
        None => 0,
    }
}

// Returns the index of a route of a changed configuration. `next` is the next index to be used.
fn index_of(before: &[usize], next: usize, change: RouteChange) -> usize
    ensures { result ≡ index_of before.now next change }
{
    match change {
        RouteChange::Stays(place) => index_at(before, place),
        RouteChange::Reopens(_) | RouteChange::Opens => next,
    }
}

/// Returns the index of the next route that opens, after this one.
pub(crate) fn next_after(next: usize, change: RouteChange) -> usize
    ensures { result ≡ next_after next change }
{
    if opens(change) {
        next.saturating_add(1)
    } else {
        next
    }
}

/// Whether a route opens: it is new, or it has closed to open again.
pub(crate) fn opens(change: RouteChange) -> bool
    ensures { result ≡ opens change }
{
    match change {
        RouteChange::Stays(_) => false,
        RouteChange::Reopens(_) | RouteChange::Opens => true,
    }
}

/// Puts the index of each route of a changed configuration into an empty list: a route that stays has the one that it had,
/// and those that open have the next ones in their order, from `first` on. `before` has the indexes of the routes before.
#[tactic(auto, using(crate::proofs::Appended::indexes_step, crate::proofs::Appended::indexes_end))]
pub(crate) fn fill_indexes(
    list: Vec<usize>,
    changes: &[RouteChange],
    before: &[usize],
    first: usize,
) -> Vec<usize>
    requires empty { (list.items ≡ []) × (vec_len list ≡ 0) }
    requires fits { length changes.now ≤ vec_capacity list }
    ensures { result.items ≡ indexes_from before.now first changes.now }
{
    let mut indexes = list;
    let mut next = first;
    let mut rest = changes;
    while !rest.is_empty() {
        let index = index_of(before, next, rest[0]);
        next = next_after(next, rest[0]);
        let Ok(()) = indexes.push(index) else {
            unreachable!()
        };
        rest = &rest[1..];
    }
    indexes
}

/// The used indexes from which on the log warns that few are left, and after how many more it does so again.
const FIRST_MARK: usize = 400;

const MARK_STEP: usize = 25;

// Returns the number of marks that this many used indexes have reached.
fn mark_of(used: usize) -> usize
    ensures { result ≡ mark_of used }
{
    if used < FIRST_MARK {
        return 0;
    }
    1 + (used - FIRST_MARK) / MARK_STEP
}

/// Whether a change brings the number of used indexes to the 400th, or to a 25th after it.
pub(crate) fn reaches_mark(before: usize, after: usize) -> bool
    ensures { result ≡ reaches_mark before after }
{
    mark_of(before) < mark_of(after)
}

/// The bytes that a packet of a window, a reply or a place of an outbox takes, and those of a megabyte.
const PACKET_BYTES: u64 = 1536;

const MEGABYTE: u64 = 1 << 20;

/// Returns the memory of a route, in megabytes of 1,048,576 bytes, to the nearest: the windows of its sessions and of two
/// publishers' deliveries, its replies and its outbox, 1.5 KB for each packet.
pub(crate) fn megabytes_of(entry: &Entry) -> u64
    ensures { result ≡ megabytes_of (terms_of entry.now) }
{
    let sessions = u64::from(entry.sessions);
    let packets = (sessions + 2)
        .saturating_mul(u64::from(entry.buffer))
        .saturating_add(66 * sessions)
        .saturating_add(u64::from(entry.outbox));
    packets
        .saturating_mul(PACKET_BYTES)
        .saturating_add(MEGABYTE / 2)
        / MEGABYTE
}
