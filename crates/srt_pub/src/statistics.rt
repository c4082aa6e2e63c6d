//! A snapshot of a publisher's session. Taking it changes nothing.

use crate::counts::Counts;
use crate::session::{Publisher, steps};

/// The state of a publisher's session and its counters.
#[derive(Clone, Copy, Debug, PartialEq, Eq)]
pub struct Statistics {
    /// Counters since the opening.
    pub counts: Counts,
    /// Number of places of the window in use: from the front to the highest received number, gaps included, in
    /// packets.
    pub in_use: u32,
    /// The available buffer size in packets, as an ACK reports it (section 3.2.4).
    pub available: u32,
    /// The smoothed round-trip time (section 4.10), in microseconds.
    pub rtt: u32,
    /// Variance of the round-trip time, in microseconds.
    pub variance: u32,
    /// By how much the sender's clock is slow since the opening, in microseconds; negative if it is fast. Due times are
    /// corrected by it (section 4.7). None if the clock isn't followed: in buffer mode, and with callers that follow
    /// the draft.
    pub correction: Option<i64>,
}

impl Publisher {
    ghost use Rattle.srt_pub.specs.Changes.{HoldsOf};
    ghost use Rattle.srt_pub.specs.Viewing.{AreStatistics};

    /// Returns the session's state and its counters. O(1).
    pub fn statistics(&self) -> Statistics
        ensures { HoldsOf self.now (λ terms initial m. AreStatistics terms m result) }
    {
        let counts = self.counts;
        let rtt = self.log.rtt.values();
        Statistics {
            counts,
            in_use: steps(self.buffer.front(), self.buffer.top()),
            available: self.buffer.available(),
            rtt: rtt.rtt(),
            variance: rtt.variance(),
            correction: self.log.followed_correction(),
        }
    }
}
