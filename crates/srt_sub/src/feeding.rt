//! Which payloads a subscriber is sent, namely those that fit in the agreed MTU less 44 (draft-sharabayko-srt-01, section
//! 3.1; the rule is our choice).

ghost use Rattle.std.specs.Prelude.{◌≡◌, ◌^◌, ◌<◌, ◌≤◌, length};

use crate::session::Subscriber;
use srt_types::Mode;
use srt_types::protocol_limits::HEADERS;

impl Subscriber {
    ghost use Rattle.srt_sub.specs.Feeding.{IsFed, IsRefused, TellsWhetherFed};
    ghost use Rattle.srt_sub.specs.Endings.{is_short};

    /// Queues a payload, 1 to 1456 bytes, after dropping too-late packets. Returns false if the payload isn't queued:
    /// in live mode if no place is free, or if it is longer than the agreed MTU less 44. In buffer mode the caller
    /// checks `room` first; without room it returns false there too. If false, the session is the same as after
    /// `expire`. One copy.
    pub fn feed(&mut self, payload: &[u8], now: u64) -> bool
        requires early { now < 2 ^ 62 }
        requires fits { length payload.now ≤ 1456 }
        ensures stands { IsFed now payload.now self.old self.new }
        ensures full { IsRefused now result self.old self.new }
        ensures answer { TellsWhetherFed now payload.now result self.old }
    {
        self.expire(now);
        if !self.is_short(payload) {
            return false;
        }
        let time = self.time(now);
        match self.buffer.queue(payload, time) {
            Ok(()) => {
                self.counts.feed(payload);
                true
            }
            Err(_) => false,
        }
    }

    /// Whether a payload fits in a packet of the agreed MTU. In buffer mode it always does: there, an MTU smaller than
    /// 1500 isn't accepted.
    fn is_short(&self, payload: &[u8]) -> bool
        ensures { result ≡ is_short self.now.mode self.now.mtu payload.now }
    {
        match self.mode {
            Mode::Live => payload.len() <= (self.mtu as usize).saturating_sub(HEADERS),
            Mode::Buffer => true,
        }
    }
}
