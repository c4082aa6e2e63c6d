//! The agreed parameters of a session, and the due times of its packets (draft-sharabayko-srt-01, section 4.5.1).

ghost use Rattle.std.specs.Prelude.{◌≡◌, ◌+◌, ◌^◌, ◌<◌, ◌≤◌, ◌+ℤ◌};
ghost use Rattle.srt_types.specs.Lift.{stamped_from};
ghost use Rattle.srt_timing.specs.Clock.{IsSlow};

use srt_timing::{Base, since_conclusion};
use srt_types::{Mode, Stamp32};

/// The agreed parameters of a session: the result of its handshake.
#[derive(Clone, Copy, Debug)]
pub struct Agreed {
    /// Live or buffer mode.
    pub mode: Mode,
    /// The receiver's delay, in microseconds. Used in live mode only (section 4.4).
    pub delay: u32,
    /// Time of the opening, in microseconds of the route's clock.
    pub opening: u64,
    /// Timestamp of the caller's conclusion, from which packet timestamps are counted.
    pub first: Stamp32,
    /// The caller's socket ID: the destination of all packets that are sent.
    pub caller: u32,
}

impl Agreed {
    ghost use Rattle.srt_pub.specs.Changes.{IsDueTime};

    /// Returns the time at which a packet with this timestamp that arrives at `now` is due, in microseconds of the
    /// route's clock. Live mode: by its timestamp and the delay (section 4.5.1), with the correction of the sender's
    /// clock in microseconds (section 4.7); it may be in the past. Buffer mode: at once, returned as the time of the
    /// opening. No packet arrives before the opening.
    pub fn due(&self, correction: i64, stamp: u32, now: u64) -> i64
        requires early { now < 2 ^ 62 }
        requires slow { IsSlow correction (2 ^ 62) }
        ensures { IsDueTime self.now correction stamp now result }
    {
        if now < self.opening {
            return now as i64;
        }
        match self.mode {
            Mode::Live => Base::new(self.opening, self.first).deadline(
                correction,
                Stamp32::new(stamp),
                now,
                self.delay,
            ),
            Mode::Buffer => self.opening as i64,
        }
    }

    /// Returns a packet's timestamp relative to that of the conclusion.
    pub fn since_conclusion(&self, stamp: u32) -> Stamp32
        ensures { result.word ≡ stamped_from self.now.first.word stamp }
    {
        since_conclusion(Stamp32::new(stamp), self.first)
    }
}
