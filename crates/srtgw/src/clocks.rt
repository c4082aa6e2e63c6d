//! The clock of the routes, as the poller and the ticking thread ask it.

ghost use Rattle.std.specs.Prelude.{◌≡◌, ◌<◌, ◌^◌};
ghost use Rattle.srt_host.specs.Clock.{start_of, last_of, IsRead};
ghost use Rattle.srtgw.specs.Clocks.{polled_by, ticked_by};

use srt_host::Since;
use srt_serve::Ticker;
use srt_wakeups::pacing::TICK_MS;
use std::thread;
use std::time::{Clock, Duration, Instant};

/// The clock of the poller: the microseconds since the gateway's start.
#[derive(Drop)]
pub struct ClockPoller<'a, R> {
    since: Since<'a, R>,
}

impl<'a, R: Clock> ClockPoller<'a, R> {
    /// A clock whose moment 0 was this one.
    pub fn new(rt: &'a R, start: Option<Instant>) -> ClockPoller<'a, R>
        ensures { (start_of (polled_by result) ≡ start) × (last_of (polled_by result) ≡ 0) }
    {
        ClockPoller {
            since: Since::new(rt, start),
        }
    }
}

impl<R: Clock> srt_poller::Clock for ClockPoller<'_, R> {
    ghost returned = { λ old new moment. IsRead old.since new.since moment };

    fn next(&mut self) -> u64 {
        self.since.moment()
    }
}

/// The same clock, but each call sleeps 10 ms first.
#[derive(Drop)]
pub struct ClockTicker<'a, R> {
    rt: &'a R,
    since: Since<'a, R>,
}

impl<'a, R: Clock> ClockTicker<'a, R> {
    /// A clock whose moment 0 was this one.
    pub fn new(rt: &'a R, start: Option<Instant>) -> ClockTicker<'a, R>
        ensures { (start_of (ticked_by result) ≡ start) × (last_of (ticked_by result) ≡ 0) }
    {
        ClockTicker {
            rt,
            since: Since::new(rt, start),
        }
    }

    // The time after 10 ms.
    fn next_tick(&mut self) -> u64
        ensures bound { result < 2 ^ 62 }
        ensures read { IsRead (ticked_by self.old) (ticked_by self.new) result }
    {
        thread::sleep(self.rt, Duration::from_millis(TICK_MS));
        self.since.moment()
    }
}

impl<R: Clock> Ticker for ClockTicker<'_, R> {
    ghost use Rattle.std.specs.Prelude.{None};

    ghost gave = { λ s. None };

    fn next(&mut self) -> u64 {
        self.next_tick()
    }
}
