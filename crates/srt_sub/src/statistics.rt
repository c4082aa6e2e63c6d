//! A snapshot of a subscriber's session. Taking it changes nothing.

use crate::counts::{Counts, Sendings};
use crate::session::Subscriber;

/// The state of a subscriber's session and its counters. The number of acknowledged packets is that of queued packets
/// less those still stored and those given up.
#[derive(Clone, Copy, Debug, PartialEq, Eq)]
pub struct Statistics {
    /// Counters of payloads queued, loss lists and packets given up, since the opening.
    pub counts: Counts,
    /// Counters of the data packets sent since the opening.
    pub sendings: Sendings,
    /// Number of free places, in packets. The others store packets that are queued and neither acknowledged nor given
    /// up.
    pub room: u32,
    /// Number of packets in flight: sent, and neither acknowledged nor given up.
    pub in_flight: u32,
    /// The last flow window that the caller reported, in packets (section 3.2.4).
    pub flow_window: u32,
    /// The last round-trip time that the caller reported, in microseconds (section 4.10).
    pub rtt: u32,
    /// Variance of the round-trip time, in microseconds.
    pub variance: u32,
}

impl Subscriber {
    ghost use Rattle.srt_sub.specs.Stands.{ForWhatever};
    ghost use Rattle.srt_sub.specs.Viewing.{AreStatistics};

    /// Returns the session's state and its counters. O(1).
    pub fn statistics(&self) -> Statistics
        ensures { ForWhatever self.now (λ terms initial opening caller last m. AreStatistics terms m result) }
    {
        let counts = self.counts;
        let round_trip = self.history.round_trip;
        Statistics {
            counts,
            sendings: self.history.sendings,
            room: self.buffer.room(),
            in_flight: self.buffer.in_flight(),
            flow_window: self.history.window,
            rtt: round_trip.rtt(),
            variance: round_trip.variance(),
        }
    }
}
