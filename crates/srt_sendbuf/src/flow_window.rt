//! The flow window: a new packet is sent only while fewer packets than the peer's window has places are in flight
//! (draft-sharabayko-srt-01, section 3.2.4).

ghost use Rattle.std.specs.Prelude.{◌≡◌, ◌<◌, ◌≤◌, ◌+◌, true, false, option_map, length, IfSome};
ghost use Rattle.srt_sendbuf.specs.Places.{length_of};

use crate::buffer::{Out, SendBuf};

impl SendBuf {
    ghost use Rattle.srt_sendbuf.specs.Sending.{front, sent, after_new};
    ghost use Rattle.srt_sendbuf.specs.Outgoing.{outgoing_of, next_new_outgoing};
    ghost use Rattle.srt_sendbuf.specs.Stands.{ForWhatever, Becomes};

    /// Whether a new packet waits, and fewer than `window` (the flow window, in packets) are in flight.
    fn has_new(&self, window: u32) -> bool
        ensures some { result ≡ true → (self.now.sent < window) × (self.now.sent < length_of self.now.ring) }
        ensures none { result ≡ false → self.now.sent < window → self.now.sent < length_of self.now.ring → ⊥ }
    {
        self.sent < window as usize && self.sent < self.ring.len()
    }

    /// Returns the next new packet to be sent, also if others are lost. None if no new packet waits, or if `window`
    /// packets (the flow window) or more are in flight (section 3.2.4). O(1), and no byte is copied. The packet is
    /// counted as sent once `note_new_sent` is called.
    pub fn next_new(&self, window: u32) -> Option<Out<'_>>
        ensures answer { ForWhatever self.now (λ width initial r. option_map outgoing_of result ≡ next_new_outgoing initial window r) }
        ensures fits { IfSome result (λ o. length o.payload.now ≤ 1456) }
    {
        if self.has_new(window) {
            self.out(self.sent, false)
        } else {
            None
        }
    }

    /// Records that the first packet not in flight was sent.
    fn sent_new(&mut self)
        requires { self.old.sent < length_of self.old.ring }
        ensures { Becomes self.old self.new (λ initial r. sent (front r + self.old.sent) r) }
    {
        self.ring.unmark(self.sent);
        self.sent += 1;
    }

    /// Records that the packet that `next_new` returns for this flow window was sent. Changes nothing if there is
    /// none. O(1).
    pub fn note_new_sent(&mut self, window: u32)
        ensures { Becomes self.old self.new (λ initial r. after_new window r) }
    {
        if self.has_new(window) {
            self.sent_new();
        }
    }
}
