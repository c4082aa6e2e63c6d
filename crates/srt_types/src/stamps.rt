//! Timestamps (draft-sharabayko-srt-01, section 3).

ghost use Rattle.std.specs.Prelude.{◌≡◌, ◌^◌, pos, ◌≤ℤ◌, ◌+ℤ◌};
ghost use Rattle.srt_types.specs.Lift.{IsLift, lift as the_lift};

/// A packet's timestamp: microseconds modulo 2^32, so that it wraps about every 71.6 minutes. The sender chooses the
/// time from which the microseconds count.
#[derive(Clone, Copy, Debug, PartialEq, Eq)]
pub struct Stamp32 {
    /// The microseconds, modulo 2^32. Every value is a timestamp.
    pub word: u32,
}

impl Stamp32 {
    /// Returns the timestamp with this word.
    pub fn new(word: u32) -> Stamp32
        ensures { result.word ≡ word }
    {
        Stamp32 { word }
    }

    /// Returns the time near `elapsed` that the timestamp denotes, in microseconds: the only time with this timestamp
    /// from `elapsed` - 2^31 to `elapsed` + 2^31, the upper end excluded. `elapsed` is a time on the same clock, in
    /// microseconds, from -2^62 to 2^62. The result can be negative. O(1).
    pub fn lift(self, elapsed: i64) -> i64
        requires low { (pos 0) ≤ℤ (elapsed +ℤ pos (2 ^ 62)) }
        requires high { elapsed ≤ℤ pos (2 ^ 62) }
        ensures nearest { IsLift self.word elapsed result }
        ensures value { result ≡ the_lift self.word elapsed }
    {
        let inside = elapsed.rem_euclid(1 << 32);
        let ahead = i64::from(self.word) - inside;
        if ahead >= 1 << 31 {
            elapsed + ahead - (1 << 32)
        } else if ahead < -(1 << 31) {
            elapsed + ahead + (1 << 32)
        } else {
            elapsed + ahead
        }
    }
}
