//! The times that packet timestamps denote (draft-sharabayko-srt-01, section 4.5.1).

ghost use Rattle.std.specs.Prelude.{◌≡◌, ◌+◌, ◌*◌, ◌^◌, pos, ◌+ℤ◌, ◌≤ℤ◌, ◌<ℤ◌};
ghost use Rattle.std.specs.Int.{int_rem_euclid};
ghost use Rattle.srt_types.specs.Lift.{stamped_from};
ghost use Rattle.srt_timing.specs.Deadline.{corrected_time};
ghost use Rattle.srt_timing.specs.Clock.{IsSlow};

use srt_types::Stamp32;

/// Returns the time that a timestamp denotes at `time`. Both times are relative to the session's opening, and the
/// timestamp to that of the conclusion; `correction` is by how much the sender's clock is slow since then. All are
/// microseconds.
pub(crate) fn corrected_time(correction: i64, time: i64, stamp: Stamp32) -> i64
    requires low { pos 0 ≤ℤ (time +ℤ pos (2 ^ 62)) }
    requires high { time ≤ℤ pos (2 ^ 62) }
    requires slow { IsSlow correction (2 ^ 62) }
    ensures value { result ≡ corrected_time correction time stamp.word }
    ensures above { time ≤ℤ (result +ℤ pos (2 ^ 31)) }
    ensures below { result <ℤ (time +ℤ pos (2 ^ 31)) }
{
    let corrected = i64::from(stamp.word) + correction;
    stamp_of(corrected).lift(time)
}

/// Returns the timestamp of a time in microseconds.
fn stamp_of(time: i64) -> Stamp32
    ensures { pos result.word ≡ int_rem_euclid time (pos (2 ^ 32)) }
{
    Stamp32::new(time.rem_euclid(1 << 32) as u32)
}

/// Returns a timestamp relative to that of the conclusion.
pub fn since_conclusion(stamp: Stamp32, conclusion: Stamp32) -> Stamp32
    ensures { result.word ≡ stamped_from conclusion.word stamp.word }
{
    Stamp32::new(stamp.word.wrapping_sub(conclusion.word))
}
