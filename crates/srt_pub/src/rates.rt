//! Measured packet rates: the last words of a Full ACK (draft-sharabayko-srt-01, section 3.2.4). In buffer mode, the
//! congestion control of callers that use libsrt sends at the rate that these words report; all other sessions report
//! 0.

ghost use Rattle.std.specs.Prelude.{◌≡◌, ℕ, ◌<◌, ◌≤◌, List, [], ◌∷◌, IfOk, vec_len, nat_lt, slice_get};
ghost use Rattle.srt_types.specs.Capped.{one_if};
ghost use Rattle.srt_recvbuf.specs.declared.buffer.Put.{Put as ThePut};
ghost use Rattle.srt_pub.specs.Publishing.{if_new, interval, median_interval, packet_rate, rate_at, rates_in, rates_with, shorter, time_between};
ghost use Rattle.srt_pub.specs.Publishing.{up_to_median};

use srt_packet::Rates;
use srt_recvbuf::Put;
use srt_types::protocol_limits::MAX_PAYLOAD;
use std::alloc::{AllocError, Global};

/// Number of stored times: of the latest new packet and of the 16 before it.
const TIMES_KEPT: usize = 17;

/// Number of intervals between the stored times.
const INTERVALS: usize = 16;

/// Maximum number of intervals that are shorter than the median, which is the ninth by length (our choice).
const MOST_SHORTER: usize = 8;

/// The interval before a packet that is missing, in microseconds (our choice, as in libsrt).
const MISSING_INTERVAL_US: u64 = 1_000_000;

/// Minimum packets receiving rate that a Full ACK reports, in packets per second (our choice).
const MIN_PACKET_RATE: u64 = 1000;

/// Minimum link capacity that a Full ACK reports, in packets per second (our choice).
const MIN_LINK_CAPACITY: u32 = 100_000;

/// Whether a session measures packet rates.
#[derive(Clone, Copy, Debug, PartialEq, Eq)]
pub enum Rating {
    /// Not measured: its Full ACKs report 0.
    Unmeasured,
    /// Measured: its Full ACKs report the measured rates.
    Measured,
}

/// The times at which the last new data packets arrived, in microseconds since the opening.
#[derive(Drop)]
pub struct Meter {
    /// Whether times are stored.
    rating: Rating,
    /// The index at which the next time is stored. The latest is at the index before, modulo 17.
    at: usize,
    /// The times; None where fewer than 17 packets arrived.
    times: Vec<Option<u64>>,
    ghost at_in: { at < 17 },
    ghost places: { vec_len times ≡ 17 },
}

impl Meter {
    ghost use Rattle.srt_pub.specs.Kept.{AreLatest, MeterStandsFor};
    ghost use Rattle.srt_pub.specs.declared.rates.Rating.{Rating as TheRating};
    ghost use Rattle.srt_pub.specs.declared.rates.Rating.TheVariants.{Unmeasured};

    /// Allocates a meter that measures nothing. The only call that allocates; the error is a failed allocation.
    pub fn open(alloc: Global) -> Result<Meter, AllocError>
        ensures { IfOk result (λ meter. MeterStandsFor Unmeasured meter []) }
    {
        Ok(Meter {
            rating: Rating::Unmeasured,
            at: 0,
            times: vec![in alloc; None; TIMES_KEPT]?,
        })
    }

    /// Discards all times, as at an opening.
    pub fn start(&mut self, rating: Rating)
        ensures { MeterStandsFor rating self.new [] }
    {
        self.rating = rating;
        self.at = 0;
        self.times.fill(None);
    }

    /// Records the arrival of a data packet at a time; `put` is the buffer's result for it. Only the first copy of a
    /// number is counted.
    pub fn come(&mut self, put: Put, time: u64)
        ensures { (rating : TheRating) (times : List ℕ) → MeterStandsFor rating self.old times → MeterStandsFor rating self.new (if_new put time times) }
    {
        match self.rating {
            Rating::Unmeasured => {}
            Rating::Measured => match put {
                Put::New => self.keep(time),
                Put::Repeat => {}
                Put::Outside => {}
            },
        }
    }

    /// Stores a time.
    fn keep(&mut self, time: u64)
        ensures { (rating : TheRating) (times : List ℕ) → MeterStandsFor rating self.old times → MeterStandsFor rating self.new (time ∷ times) }
    {
        self.times[self.at] = Some(time);
        self.at = (self.at + 1) % TIMES_KEPT;
    }

    /// Returns the rates that a Full ACK reports. O(1).
    pub fn rates(&self) -> Rates
        ensures { (rating : TheRating) (times : List ℕ) → MeterStandsFor rating self.now times → result ≡ rates_in rating times }
    {
        match self.rating {
            Rating::Unmeasured => Rates {
                packets: 0,
                capacity: 0,
                bytes: 0,
            },
            Rating::Measured => rates_with(self.packet_rate()),
        }
    }

    /// Returns the packets receiving rate, from the last 17 times: the minimum rate if there are fewer than ten.
    fn packet_rate(&self) -> u32
        ensures value { (times : List ℕ) → AreLatest self.now.at self.now.times.items times → result ≡ packet_rate times }
        ensures most { result ≤ 1_000_000 }
    {
        rate_at(self.median_interval())
    }

    /// Returns the arrival time of the new packet at a place; the latest is at place 0. None where fewer arrived.
    /// O(1).
    fn arrived_at(&self, place: usize) -> Option<u64>
        requires { place ≤ 16 }
        ensures { (times : List ℕ) → AreLatest self.now.at self.now.times.items times → result ≡ slice_get times place }
    {
        self.times[(self.at + (INTERVALS - place)) % TIMES_KEPT]
    }

    /// Returns the interval between the packet before it and the new packet at a place, in microseconds; a second if
    /// one of them is missing. O(1).
    fn interval(&self, place: usize) -> u64
        requires { place < 16 }
        ensures { (times : List ℕ) → AreLatest self.now.at self.now.times.items times → result ≡ interval times place }
    {
        time_between(self.arrived_at(place), self.arrived_at(place + 1))
    }

    /// Returns how many of the latest 16 intervals are shorter than a time in microseconds.
    fn shorter(&self, time: u64) -> usize
        ensures { (times : List ℕ) → AreLatest self.now.at self.now.times.items times → result ≡ shorter times time 16 }
    {
        let mut count = 0;
        for place in 0..INTERVALS {
            count += one_if_shorter(self.interval(place), time);
        }
        count
    }

    /// Returns the interval of a place, in microseconds; 0 if it is longer than the median.
    fn up_to_median(&self, place: usize) -> u64
        requires { place < 16 }
        ensures { (times : List ℕ) → AreLatest self.now.at self.now.times.items times → result ≡ up_to_median times place }
    {
        let interval = self.interval(place);
        if self.shorter(interval) > MOST_SHORTER {
            0
        } else {
            interval
        }
    }

    /// Returns the median of the latest 16 intervals, in microseconds. 256 comparisons.
    fn median_interval(&self) -> u64
        ensures { (times : List ℕ) → AreLatest self.now.at self.now.times.items times → result ≡ median_interval times }
    {
        let mut median = 0;
        for at in 0..INTERVALS {
            median = self.up_to_median(at).max(median);
        }
        median
    }
}

/// Returns the time between two packets, in microseconds; a second if one of them is missing.
fn time_between(later: Option<u64>, earlier: Option<u64>) -> u64
    ensures { result ≡ time_between later earlier }
{
    match (later, earlier) {
        (Some(later), Some(earlier)) => later.saturating_sub(earlier),
        _ => MISSING_INTERVAL_US,
    }
}

/// Returns 1 if an interval is shorter than a time, else 0.
fn one_if_shorter(interval: u64, time: u64) -> usize
    ensures value { result ≡ one_if (nat_lt interval time) }
    ensures small { result ≤ 1 }
{
    if interval < time { 1 } else { 0 }
}

/// Returns the packets receiving rate for packets that arrive at this interval in microseconds.
fn rate_at(interval: u64) -> u32
    ensures value { result ≡ rate_at interval }
    ensures most { result ≤ 1_000_000 }
{
    (1_000_000 / interval.max(1)).max(MIN_PACKET_RATE) as u32
}

/// Returns the rates that a Full ACK reports for this packets receiving rate.
fn rates_with(rate: u32) -> Rates
    requires { rate ≤ 1_000_000 }
    ensures { result ≡ rates_with rate }
{
    Rates {
        packets: rate,
        capacity: rate.max(MIN_LINK_CAPACITY),
        bytes: rate * MAX_PAYLOAD as u32,
    }
}
