//! The values from which the drift of a sender's clock is computed, and how a sample changes them.

ghost use Rattle.std.specs.Prelude.{◌≡◌, ℕ, ◌+◌, ◌^◌, ◌<◌, ◌≤◌, pos, ◌+ℤ◌, ◌≤ℤ◌};
ghost use Rattle.srt_timing.specs.Clock.{IsBounded, IsNear, IsSlow, beyond_slack, change_by, closed, closed_if_long, lateness, limited, unexpired, with_sample};

use crate::stamps::corrected_time;
use srt_types::Stamp32;

/// The time after which a window that wasn't closed is discarded, in microseconds.
const WINDOW_EXPIRY_US: u64 = 10_000_000;

/// The minimum time from a window's first sample to its last one, in microseconds.
const WINDOW_LENGTH_US: u64 = 1_000_000;

/// The lateness below the reference that moves nothing, in microseconds.
const SLACK_US: i64 = 2_000;

/// The maximum drift that is followed is one part in this number (1000 ppm).
const PARTS: u64 = 1000;

/// Of the samples of a period, the one with the least round trip.
#[derive(Clone, Copy)]
pub struct Window {
    /// Time of the first sample, in microseconds since the opening.
    pub start: u64,
    /// The least round-trip time, in microseconds.
    pub round_trip: u64,
    /// Lateness of that sample, in microseconds.
    pub lateness: i64,
}

/// What is known of a sender's clock.
#[derive(Clone, Copy)]
pub struct Clock {
    /// By how much the clock is slow since the opening, in microseconds; negative if it is fast.
    pub correction: i64,
    /// Time at which the last window closed, in microseconds since the opening; 0 at first.
    pub moved: u64,
    /// Lateness of the first window that closed, in microseconds.
    pub reference: Option<i64>,
    /// The window that isn't closed yet.
    pub window: Option<Window>,
}

/// Returns how late a timestamp is that arrives at `time`, less half of the round trip, in microseconds.
pub(crate) fn lateness(correction: i64, time: u64, stamp: Stamp32, round_trip: u64) -> i64
    requires early { time < 2 ^ 62 }
    requires short { round_trip ≤ 10_000_000 }
    requires slow { IsSlow correction (2 ^ 62) }
    ensures value { result ≡ lateness correction (record { time = time; stamp = stamp.word; round_trip = round_trip }) }
    ensures near { IsNear result }
{
    time as i64 - corrected_time(correction, time as i64, stamp) - (round_trip / 2) as i64
}

/// Returns the window, or None if it is too old.
pub(crate) fn unexpired(time: u64, window: Option<Window>) -> Option<Window>
    ensures { result ≡ unexpired time window }
{
    match window {
        None => None,
        Some(w) => {
            if time.saturating_sub(w.start) >= WINDOW_EXPIRY_US {
                None
            } else {
                window
            }
        }
    }
}

/// Returns the window after a sample: of two samples it has the one with the lesser round trip, of equal ones the later.
pub(crate) fn with_sample(late: i64, time: u64, round_trip: u64, window: Option<Window>) -> Window
    ensures { (stamp : ℕ) → result ≡ with_sample late (record { time = time; stamp = stamp; round_trip = round_trip }) window }
{
    match window {
        None => Window {
            start: time,
            round_trip,
            lateness: late,
        },
        Some(w) => {
            if round_trip <= w.round_trip {
                Window {
                    start: w.start,
                    round_trip,
                    lateness: late,
                }
            } else {
                w
            }
        }
    }
}

/// Returns the clock with a window that has just taken a sample. The window closes if it is long enough.
pub(crate) fn closed_if_long(time: u64, window: Window, clock: Clock) -> Clock
    requires early { time < 2 ^ 62 }
    requires near { IsNear window.lateness }
    requires bounded { IsBounded clock }
    ensures value { result ≡ closed_if_long time window clock }
    ensures bounded { IsBounded result }
{
    if time.saturating_sub(window.start) >= WINDOW_LENGTH_US {
        return closed(time, window.lateness, clock);
    }
    Clock {
        correction: clock.correction,
        moved: clock.moved,
        reference: clock.reference,
        window: Some(window),
    }
}

/// Returns the clock after a window closes whose sample has this lateness. The session's first one gives the reference;
/// each later one moves the correction.
fn closed(time: u64, late: i64, clock: Clock) -> Clock
    requires early { time < 2 ^ 62 }
    requires near { IsNear late }
    requires bounded { IsBounded clock }
    ensures value { result ≡ closed time late clock }
    ensures bounded { IsBounded result }
{
    let moved = clock.moved.max(time);
    match clock.reference {
        None => Clock {
            correction: clock.correction,
            moved,
            reference: Some(late),
            window: None,
        },
        Some(reference) => Clock {
            correction: clock.correction
                + change_by(time.saturating_sub(clock.moved), late, reference),
            moved,
            reference: clock.reference,
            window: None,
        },
    }
}

/// Returns the change of the correction by a window that closes `elapsed` after the one before it: at most a thousandth
/// of that time. What is up to 2 ms early moves nothing, since a deadline that is late costs only delay, and an early
/// one loses packets.
fn change_by(elapsed: u64, late: i64, reference: i64) -> i64
    requires early { elapsed < 2 ^ 62 }
    requires late { IsNear late }
    requires reference { IsNear reference }
    ensures value { result ≡ change_by elapsed late reference }
    ensures slow { IsSlow result elapsed }
{
    limited(elapsed / PARTS, beyond_slack(late - reference))
}

/// Returns the change, at most `limit` either way.
fn limited(limit: u64, change: i64) -> i64
    requires { limit < 2 ^ 62 }
    ensures value { result ≡ limited limit change }
    ensures above { pos 0 ≤ℤ (pos limit +ℤ result) }
    ensures below { result ≤ℤ pos limit }
{
    let limit = limit as i64;
    change.min(limit).max(-limit)
}

/// Returns a change whole if it isn't negative, or else what of it is beyond the slack.
fn beyond_slack(change: i64) -> i64
    requires low { pos 0 ≤ℤ (change +ℤ pos (2 ^ 33)) }
    requires high { change ≤ℤ pos (2 ^ 33) }
    ensures { result ≡ beyond_slack change }
{
    change.max((change + SLACK_US).min(0))
}
