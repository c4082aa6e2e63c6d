//! Loss lists as parts: the places that their ranges cover, in ascending order, so that no place is marked twice.

ghost use Rattle.std.specs.Prelude.{◌≡◌, ◌+◌, ◌^◌, ◌<◌, ◌≤◌, ◌∷◌, [], IfSome, IfNone, length};
ghost use Rattle.std.specs.List.Sorted.{IsPermutation, IsNonDecreasingBy};
ghost use Rattle.srt_types.specs.Window.{word_of};
ghost use Rattle.srt_sendbuf.specs.Parts.{is_in_parts, with_part, AreWithin, IsTaken};

use arrayvec::ArrayVec;
use srt_loss::{Ranges, part_in};
use srt_types::Seq31;

/// Maximum number of parts that are read from a list at once. One datagram's loss list has fewer: at most 364 ranges,
/// in 1456 bytes.
pub const PARTS: usize = 365;

/// Appends a part, if there is one.
fn put(parts: &mut ArrayVec<(u32, u32), PARTS>, part: Option<(u32, u32)>)
    requires { length parts.old.items < 365 }
    ensures { parts.new.items ≡ with_part parts.old.items part }
{
    if let Some(part) = part {
        parts.push(part);
    }
}

/// Reads ranges from a list until `PARTS` of them cover places of a window, or none remains. The window begins at the
/// number `front` and has `width` places.
fn first_parts(ranges: &mut Ranges<'_>, front: Seq31, width: u32) -> ArrayVec<(u32, u32), PARTS>
    requires narrow { width ≤ 2 ^ 30 }
    ensures named { IsTaken (word_of front) width ranges.old ranges.new (is_in_parts result.items) }
    ensures within { AreWithin width result.items }
    ensures shorter { length ranges.new + length result.items ≤ length ranges.old }
    ensures all { length result.items < 365 → ranges.new ≡ [] }
{
    let mut parts = ArrayVec::new();
    while parts.len() < PARTS {
        match ranges.next_range() {
            Some(range) => put(&mut parts, part_in(range, front, width)),
            None => return parts,
        }
    }
    parts
}

/// Sorts parts by their first places.
fn sort(parts: &mut ArrayVec<(u32, u32), PARTS>)
    ensures same { IsPermutation parts.old.items parts.new.items }
    ensures ascending { IsNonDecreasingBy (λ part. part.0) parts.new.items }
{
    parts.as_mut_slice().sort_unstable_by_key(|part| part.0);
}

/// Reads ranges from a list until `PARTS` of them cover places of a window, or none remains. The window begins at the
/// number `front` and has `width` places, at most 2^30. A part is the first and the last place of a range in the
/// window. The parts are sorted by their first places. O(n log n) in the ranges, and linear if the list ascends or
/// descends; doesn't allocate.
pub fn next_parts(ranges: &mut Ranges<'_>, front: Seq31, width: u32) -> ArrayVec<(u32, u32), PARTS>
    requires narrow { width ≤ 2 ^ 30 }
    ensures named { IsTaken (word_of front) width ranges.old ranges.new (is_in_parts result.items) }
    ensures within { AreWithin width result.items }
    ensures ascending { IsNonDecreasingBy (λ part. part.0) result.items }
    ensures shorter { length ranges.new + length result.items ≤ length ranges.old }
    ensures all { length result.items < 365 → ranges.new ≡ [] }
{
    let mut parts = first_parts(ranges, front, width);
    sort(&mut parts);
    parts
}

/// Parts, split after the first.
#[derive(Clone, Copy)]
pub struct Rest<'a> {
    /// The first part, as its first and its last place.
    pub part: (u32, u32),
    /// The parts after it.
    pub more: &'a [(u32, u32)],
}

/// Splits parts after the first. None if there are none.
pub fn split(parts: &[(u32, u32)]) -> Option<Rest<'_>>
    ensures some { IfSome result (λ r. parts.now ≡ r.part ∷ r.more.now) }
    ensures none { IfNone result (parts.now ≡ []) }
{
    let (part, more) = parts.split_first()?;
    Some(Rest { part: *part, more })
}
