//! The drift of a sender's clock, estimated from ACKACKs (draft-sharabayko-srt-01, section 4.7; the rules are our
//! choice). An ACKACK is sent at once, so its timestamp is late by half of the round trip. The sample with the least
//! round trip of a second has the least error. The first second gives the reference; each later one moves the
//! correction by how much later or earlier its sample is.

ghost use Rattle.std.specs.Prelude.{◌≡◌, ◌^◌, ◌<◌, ◌≤◌};
ghost use Rattle.srt_timing.specs.Clock.{IsBounded, IsSlow, clock_at_first, sampled};

use crate::drift_windows::{Clock, closed_if_long, lateness, unexpired, with_sample};
use srt_types::Stamp32;

/// The drift of a sender's clock since a session's opening. No method allocates, and each is O(1).
#[derive(Clone, Copy)]
pub struct Drift {
    clock: Clock,
    pub ghost bounded: { IsBounded clock },
}

impl Drift {
    ghost use Rattle.srt_timing.specs.Drift.{clock_of};

    /// Returns the drift before the first sample.
    pub fn none() -> Drift
        ensures { clock_of result ≡ clock_at_first }
    {
        Drift {
            clock: Clock {
                correction: 0,
                moved: 0,
                reference: None,
                window: None,
            },
        }
    }

    /// Returns by how much the sender's clock is slow since the opening, in microseconds; negative if it is fast.
    pub fn correction(&self) -> i64
        ensures value { result ≡ (clock_of self.now).correction }
        ensures slow { IsSlow result (2 ^ 62) }
    {
        self.clock.correction
    }

    /// Processes an ACKACK that confirms a Full ACK: it arrives at `time`, in microseconds since the opening, with this
    /// timestamp, relative to the conclusion's. `round_trip` is the sample of the round-trip time, in microseconds.
    pub fn sample(&mut self, time: u64, stamp: Stamp32, round_trip: u64)
        requires early { time < 2 ^ 62 }
        requires short { round_trip ≤ 10_000_000 }
        ensures { clock_of self.new ≡ sampled (record { time = time; stamp = stamp.word; round_trip = round_trip }) (clock_of self.old) }
    {
        let clock = self.clock;
        let late = lateness(clock.correction, time, stamp, round_trip);
        let open = unexpired(time, clock.window);
        let window = with_sample(late, time, round_trip, open);
        *self = Drift {
            clock: closed_if_long(time, window, clock),
        };
    }
}
