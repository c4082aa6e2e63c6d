//! The routes' clock: microseconds since the gateway's start.

ghost use Rattle.std.specs.Prelude.{◌≡◌, ◌<◌, ◌^◌, ◌∷◌, [], None, option_map};
ghost use Rattle.std.specs.Duration.{as_nanos};

use crate::times::time_after;
use srt_procfs::Journal;
use std::time::{Clock, Duration, Instant};

/// Which reading of the system's clock a note is of.
const PASSED: u64 = 0;

const UNREAD: u64 = 1;

/// What has passed since a start.
#[derive(Drop)]
struct Elapsed<'a, R> {
    rt: &'a R,
    start: Option<Instant>,
    // for contracts alone
    journal: Journal,
}

impl<'a, R: Clock> Elapsed<'a, R> {
    ghost use Rattle.srt_host.specs.Clock.{reading_note};

    // Reads the system's clock once. None without a start, or if it can't be read.
    fn read(&mut self) -> Option<Duration>
        ensures noted { self.new.journal.notes ≡ reading_note (option_map as_nanos result) ∷ self.old.journal.notes }
        ensures start { self.new.start ≡ self.old.start }
    {
        if let Some(start) = self.start {
            if let Ok(passed) = start.elapsed(self.rt) {
                let numbers = [PASSED, passed.as_secs(), u64::from(passed.subsec_nanos())];
                self.journal.note(&numbers, &[], &[]);
                return Some(passed);
            }
        }
        self.journal.note(&[UNREAD], &[], &[]);
        None
    }
}

/// A clock of the microseconds since the gateway's start. If the system's clock can't be read, it returns its last time
/// again.
#[derive(Drop)]
pub struct Since<'a, R> {
    elapsed: Elapsed<'a, R>,
    last: u64,
    ghost early: { last < 2 ^ 62 },
}

impl<'a, R: Clock> Since<'a, R> {
    ghost use Rattle.srt_host.specs.Clock.{start_of, last_of, readings_of, IsRead};

    /// Returns a clock that is 0 at `start`. Without a start it stays at 0.
    pub fn new(rt: &'a R, start: Option<Instant>) -> Since<'a, R>
        ensures begun { last_of result ≡ 0 }
        ensures start { start_of result ≡ start }
        ensures unread { readings_of result ≡ [] }
    {
        let elapsed = Elapsed {
            rt,
            start,
            journal: Journal::new(),
        };
        Since { elapsed, last: 0 }
    }

    /// Returns the present time, in microseconds since the start; below 2^62.
    pub fn moment(&mut self) -> u64
        ensures bound { result < 2 ^ 62 }
        ensures read { IsRead self.old self.new result }
    {
        if let Some(passed) = self.elapsed.read() {
            self.last = time_after(self.last, passed);
        }
        self.last
    }
}
