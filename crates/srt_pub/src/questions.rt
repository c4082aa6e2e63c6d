//! The state that a route polls of a publisher's session: whether a payload is left to deliver, and the time since the
//! last data packet.

ghost use Rattle.std.specs.Prelude.{◌≡◌, ◌-◌};
ghost use Rattle.srt_pub.specs.Publishing.{has_undelivered, last_arrival};

use crate::session::{Publisher, steps};
use srt_types::Mode;

impl Publisher {
    ghost use Rattle.srt_pub.specs.Changes.{HoldsOf, HoldsOfAt};

    /// Whether a received packet is still to be delivered: in live mode any packet, also after missing ones; in buffer
    /// mode the next one in order. O(1).
    pub fn has_undelivered(&self) -> bool
        ensures { HoldsOf self.now (λ terms initial m. result ≡ has_undelivered terms.mode m.receiving) }
    {
        match self.agreed.mode {
            Mode::Live => self.buffer.waiting(),
            Mode::Buffer => steps(self.buffer.front(), self.buffer.ack_point()) != 0,
        }
    }

    /// Returns the time since the last unencrypted data packet, in microseconds; since the opening if none has
    /// arrived. O(1).
    pub fn silent_for(&self, now: u64) -> u64
        ensures { HoldsOfAt now self.now (λ terms time m. result ≡ time - last_arrival m.notes) }
    {
        now.saturating_sub(self.agreed.opening)
            .saturating_sub(self.log.arrived)
    }
}
