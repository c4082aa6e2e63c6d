//! Times in microseconds: of the routes' clock by what has passed since the gateway's start, and of the system.

ghost use Rattle.std.specs.Prelude.{◌≡◌, ◌/◌, ◌^◌, ◌-◌, min, Option, ℕ, option_map};
ghost use Rattle.std.specs.Duration.{as_nanos};
ghost use Rattle.srt_host.specs.Times.{time_after, time_of};

use std::time::{Duration, Instant, SystemTime};

/// The bound of the routes' clock, in microseconds: each of its times is below it, 146,000 years.
const TIME_BOUND: u64 = 1 << 62;

/// Through what the system's clocks are read.
pub trait HostClocks {
    ghost use Rattle.std.specs.declared.time.Instant.{Instant as TheInstant};

    /// The clock that never goes back gave this instant, or couldn't be read.
    ghost was_instant: { Option TheInstant → Type 0 };

    /// The system's time was this number of nanoseconds since 1970, or couldn't be read.
    ghost was_time: { Option ℕ → Type 0 };

    /// Reads the clock that never goes back. `None` if it can't be read.
    fn instant(&self) -> Option<Instant>
        ensures { was_instant result };

    /// Reads the time since 1970. `None` if it can't be read, or is before 1970.
    fn wall_time(&self) -> Option<Duration>
        ensures { was_time (option_map as_nanos result) };
}

impl HostClocks for HostRuntime {
    ghost was_instant = { λ instant. Unit {0} };

    ghost was_time = { λ time. Unit {0} };

    fn instant(&self) -> Option<Instant> {
        Instant::now(self).ok()
    }

    fn wall_time(&self) -> Option<Duration> {
        let now = SystemTime::now(self).ok()?;
        now.duration_since(SystemTime::UNIX_EPOCH).ok()
    }
}

/// Returns the microseconds of a duration, at most 2^64 - 1.
fn micros_of(passed: Duration) -> u64
    ensures { result ≡ min (as_nanos passed / 1_000) (2 ^ 64 - 1) }
{
    u64::try_from(passed.as_micros()).unwrap_or(u64::MAX)
}

/// Returns the time of a clock that was `last`, once this much has passed since its start.
pub(crate) fn time_after(last: u64, passed: Duration) -> u64
    ensures { result ≡ time_after last (as_nanos passed) }
{
    let now = micros_of(passed);
    if now < TIME_BOUND { now } else { last }
}

/// Returns the present time, in microseconds since 1970; 0 if the system's clock can't be read, or is before 1970.
pub fn time_now<C: HostClocks>(clock: &C) -> u64
    ensures { (time : Option ℕ) × C.was_time time × (result ≡ time_of time) }
{
    match clock.wall_time() {
        Some(since) => micros_of(since),
        None => 0,
    }
}
