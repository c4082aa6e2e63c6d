//! How densely datagrams arrive.

ghost use Rattle.std.specs.Prelude.{◌≡◌};
ghost use Rattle.srt_poller.specs.Pauses.{none_counted, counted};

use crate::tuning::TOO_DENSE;

// A millisecond, in microseconds.
const MILLISECOND: u64 = 1000;

/// A count of datagrams by the millisecond. The counters saturate at 100, which is too dense already.
#[derive(Clone, Copy)]
pub(crate) struct Density {
    /// When the millisecond that is counted began, in microseconds.
    pub(crate) began: u64,
    /// The number of datagrams in it.
    pub(crate) count: u32,
    /// The number of datagrams in the millisecond just before.
    pub(crate) last: u32,
}

impl Density {
    /// No datagram has arrived yet.
    pub(crate) fn new() -> Density
        ensures { result ≡ none_counted }
    {
        Density {
            began: 0,
            count: 0,
            last: 0,
        }
    }

    /// Counts a datagram that arrived at this time, in microseconds.
    pub(crate) fn arrived(&mut self, moment: u64)
        ensures { self.new ≡ counted moment self.old }
    {
        let passed = moment.saturating_sub(self.began);
        if passed < MILLISECOND {
            if self.count < TOO_DENSE {
                self.count += 1;
            }
            return;
        }
        let last = if passed < 2 * MILLISECOND {
            self.count
        } else {
            0
        };
        *self = Density {
            began: moment,
            count: 1,
            last,
        };
    }
}
