//! When packets are due (draft-sharabayko-srt-01, section 4.5.1).

ghost use Rattle.std.specs.Prelude.{◌≡◌, ◌^◌, ◌<◌, ◌≤◌, pos, ◌+ℤ◌};

use crate::stamps::{corrected_time, since_conclusion};
use srt_types::Stamp32;

/// The relation of the sender's clock to the gateway's: the time at which a session was opened, and the timestamp of
/// the conclusion that opened it.
#[derive(Clone, Copy, Debug)]
pub struct Base {
    opening: u64,
    first: Stamp32,
    pub ghost early: { opening < 2 ^ 62 },
}

impl Base {
    ghost use Rattle.srt_timing.specs.Clock.{IsSlow};
    ghost use Rattle.srt_timing.specs.Deadline.{opening_of, first_of, IsDeadline, deadline_at, deadline_from_opening};

    /// Returns the base of a session that is opened at `moment`, in microseconds, by a conclusion with this timestamp.
    pub fn new(moment: u64, conclusion: Stamp32) -> Base
        requires { moment < 2 ^ 62 }
        ensures opening { opening_of result ≡ moment }
        ensures first { first_of result ≡ conclusion.word }
    {
        Base {
            opening: moment,
            first: conclusion,
        }
    }

    /// Returns the time at which a packet with this timestamp that arrives at `now` is due: the packet's time on the
    /// sender's clock, converted to the gateway's clock, plus the delay (section 4.5.1). `correction` is by how much the
    /// sender's clock is slow since the opening. The timestamp denotes the time nearest to the sender's time at `now`.
    /// All are microseconds; the result is negative if the packet was due before time 0.
    pub fn deadline(self, correction: i64, stamp: Stamp32, now: u64, delay: u32) -> i64
        requires early { now < 2 ^ 62 }
        requires slow { IsSlow correction (2 ^ 62) }
        ensures moment { IsDeadline (pos (opening_of self) +ℤ correction) (first_of self) stamp.word now delay result }
        ensures value { result ≡ deadline_at (pos (opening_of self) +ℤ correction) (first_of self) stamp.word now delay }
        // The same, relative to the session's opening and its first timestamp.
        ensures own { opening_of self ≤ now → result ≡ deadline_from_opening (opening_of self) (first_of self) correction stamp.word now delay }
    {
        let since_first = since_conclusion(stamp, self.first);
        let since_opening = corrected_time(
            correction,
            now as i64 - self.opening as i64,
            since_first,
        );
        self.opening as i64 + since_opening + i64::from(delay)
    }
}
