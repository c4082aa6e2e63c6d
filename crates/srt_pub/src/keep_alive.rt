//! A publisher's KEEPALIVE: sent after a second in which nothing was sent (draft-sharabayko-srt-01, section 3.2.3).

ghost use Rattle.std.specs.Prelude.{◌≡◌, ◌-◌, ◌∷◌, true, false, nat_le};
ghost use Rattle.srt_types.specs.Given.{given};
ghost use Rattle.srt_packet.specs.Encoded.{bytes_of, IsPacketText};
ghost use Rattle.srt_pub.specs.Publishing.{last_sent};
ghost use Rattle.srt_pub.specs.Calls.{keep_alive_after, listed};
ghost use Rattle.srt_types.specs.Limits.{keep_alive_after_us};
ghost use Rattle.srt_pub.specs.Publishing.Note.{Sent};
ghost use Rattle.srt_pub.specs.Publishing.Report.{KeepAlive as TheKeepAlive};

use crate::log::Log;
use crate::session::Publisher;
use srt_packet::{Body, EncodedPacket};
use srt_types::protocol_limits::KEEP_ALIVE_AFTER_US;

impl Publisher {
    ghost use Rattle.srt_pub.specs.Stands.{opening_of};
    ghost use Rattle.srt_pub.specs.Changes.{Becomes, Writes, with_sent};

    /// Writes a KEEPALIVE, if one is due and neither an ACK nor a NAK is sent. Returns whether it did; if not,
    /// `packet` is unchanged.
    pub(crate) fn keep_alive(
        &mut self,
        time: u64,
        ack: bool,
        nak: bool,
        packet: &mut EncodedPacket,
    ) -> bool
        ensures stands { Becomes self.old self.new (λ terms initial m. with_sent time (keep_alive_after ack nak time m.notes) m) }
        ensures opening { opening_of self.new ≡ opening_of self.old }
        ensures bytes { Writes time self.old (listed (given result packet.new)) (λ terms time m. keep_alive_after ack nak time m.notes) }
        ensures packet { result ≡ true → IsPacketText (bytes_of packet.new) }
        ensures kept { result ≡ false → packet.new ≡ packet.old }
    {
        if ack {
            return false;
        }
        if nak {
            return false;
        }
        if self.log.keep_alive_due(time) {
            self.log.keep_alive(time);
            self.encode(time, Body::KeepAlive, packet);
            return true;
        }
        false
    }
}

impl Log {
    ghost use Rattle.srt_pub.specs.inside.Noting.{LogBecomes, LogHoldsOf};

    /// Whether nothing was sent for a second, so that a KEEPALIVE is due.
    pub fn keep_alive_due(&self, time: u64) -> bool
        ensures { LogHoldsOf self.now (λ terms notes. result ≡ nat_le keep_alive_after_us (time - last_sent notes)) }
    {
        time.saturating_sub(self.sent) >= KEEP_ALIVE_AFTER_US
    }

    /// Records that a KEEPALIVE is sent.
    pub fn keep_alive(&mut self, time: u64)
        ensures { LogBecomes self.old self.new (λ notes. Sent time TheKeepAlive ∷ notes) }
    {
        self.sent = time;
    }
}
