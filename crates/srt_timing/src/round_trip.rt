//! The round-trip time and its variance, RTTVar (draft-sharabayko-srt-01, section 4.10).

ghost use Rattle.std.specs.Prelude.{◌≡◌, ◌≤◌};
ghost use Rattle.srt_timing.specs.RoundTrip.{start as at_first, with_sample, nak_interval as nak_interval_of, resend_after as resend_of, round_trip_of};

use srt_types::protocol_limits::{MIN_NAK_INTERVAL_US, RESEND_MARGIN_US};

/// A smoothed round-trip time and its variance, both in microseconds. No method allocates, and each is O(1).
#[derive(Clone, Copy, Debug, PartialEq, Eq)]
pub struct Rtt {
    time: u32,
    variance: u32,
}

impl Rtt {
    /// Returns the values before the first sample: 100 ms, and a variance of 50 ms.
    pub fn start() -> Rtt
        ensures { round_trip_of result ≡ at_first }
    {
        Rtt {
            time: 100_000,
            variance: 50_000,
        }
    }

    /// Replaces both values by those of an ACK, in microseconds. Any values of 32 bits are allowed.
    pub fn set(&mut self, time: u32, variance: u32)
        ensures { round_trip_of self.new ≡ record { time = time; variance = variance } }
    {
        *self = Rtt { time, variance };
    }

    /// Smooths the values with one more sample, in microseconds. Round-trip time and variance move by 1/8 and 1/4
    /// towards the new values, rounded down (section 4.10; the rounding is our choice).
    pub fn sample(&mut self, sample: u64)
        requires { sample ≤ 10_000_000 }
        ensures { round_trip_of self.new ≡ with_sample sample (round_trip_of self.old) }
    {
        let time = u64::from(self.time);
        let variance = u64::from(self.variance);
        *self = Rtt {
            time: ((7 * time + sample) / 8) as u32,
            variance: ((3 * variance + time.abs_diff(sample)) / 4) as u32,
        };
    }

    /// Returns the interval between two periodic NAKs, which report all gaps, in microseconds: half the sum of the
    /// round-trip time and four times the variance, rounded down, and at least 20 ms (section 4.8.2). It can exceed 32
    /// bits.
    pub fn nak_interval(&self) -> u64
        ensures { result ≡ nak_interval_of (round_trip_of self.now) }
    {
        ((u64::from(self.time) + 4 * u64::from(self.variance)) / 2).max(MIN_NAK_INTERVAL_US)
    }

    /// Returns the time, in microseconds, after which all packets in flight are retransmitted, counted from the last
    /// new acknowledgement or the last data packet sent, whichever was later: the round-trip time plus four times the
    /// variance plus 20 ms (our choice). It can exceed 32 bits.
    pub fn resend_after(&self) -> u64
        ensures { result ≡ resend_of (round_trip_of self.now) }
    {
        u64::from(self.time) + 4 * u64::from(self.variance) + RESEND_MARGIN_US
    }

    /// Returns the smoothed round-trip time, in microseconds, as in an ACK.
    pub fn rtt(&self) -> u32
        ensures { result ≡ (round_trip_of self.now).time }
    {
        self.time
    }

    /// Returns the variance, in microseconds, as in an ACK.
    pub fn variance(&self) -> u32
        ensures { result ≡ (round_trip_of self.now).variance }
    {
        self.variance
    }
}
