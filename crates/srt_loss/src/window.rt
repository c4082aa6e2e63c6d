//! The intersection of a range with a window of numbers.

ghost use Rattle.std.specs.Prelude.{◌≡◌, ℕ, ◌%◌, ◌^◌, ◌<◌, ◌≤◌, IfSome};
ghost use Rattle.srt_types.specs.Window.{word_of};
ghost use Rattle.srt_types.specs.Runs.{span};
ghost use Rattle.srt_loss.specs.Text.{range_of};
ghost use Rattle.srt_loss.specs.Window.{IsPartOf};

use crate::circle::steps;
use srt_types::Seq31;

/// Returns the part of a window that a range covers, as its first and last offset from `front`, both included; None if
/// it is empty. The part is contiguous. The range has its first and last number, both included, fewer than 2^30 apart.
/// `width` is the size of the window in packets, at most 2^30. O(1).
pub fn part_in(range: (Seq31, Seq31), front: Seq31, width: u32) -> Option<(u32, u32)>
    requires short { span (range_of range) < 2 ^ 30 }
    requires narrow { width ≤ 2 ^ 30 }
    // `n` is any unbounded number with the word of `front`.
    ensures value { (n : ℕ) → n % 2 ^ 31 ≡ word_of front → IsPartOf (range_of range) n width result }
    ensures within { IfSome result (λ part. (part.0 ≤ part.1) × (part.1 < width)) }
{
    let low = steps(front, range.0);
    let high = low + steps(range.0, range.1);
    if width == 0 {
        None
    } else if high >= 1 << 31 {
        // The range begins before the front and extends to it across the wrap.
        Some((0, (high - (1 << 31)).min(width - 1)))
    } else if low < width {
        Some((low, high.min(width - 1)))
    } else {
        None
    }
}
