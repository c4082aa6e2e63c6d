//! A subscriber's KEEPALIVE: sent after a second in which nothing was sent (draft-sharabayko-srt-01, section 3.2.3).

ghost use Rattle.std.specs.Prelude.{◌≡◌, ◌-◌, [], true, false, nat_le};
ghost use Rattle.srt_types.specs.Given.{given as written};
ghost use Rattle.srt_packet.specs.Encoded.{bytes_of, IsPacketText};
ghost use Rattle.srt_sub.specs.Subscribing.{noted, keep_alives, last_sent};
ghost use Rattle.srt_types.specs.Limits.{keep_alive_after_us};

use crate::history::History;
use crate::packets::keep_alive;
use crate::session::Subscriber;
use srt_packet::EncodedPacket;
use srt_types::protocol_limits::KEEP_ALIVE_AFTER_US;

impl Subscriber {
    ghost use Rattle.srt_sub.specs.Stands.{BecomesAt, WritesAt};
    ghost use Rattle.srt_sub.specs.inside.Turns.{texts};

    /// Writes a KEEPALIVE if nothing was sent for a second. Returns whether it did; if not, `packet` is unchanged.
    pub(crate) fn next_keep_alive(&mut self, time: u64, packet: &mut EncodedPacket) -> bool
        ensures stands { BecomesAt time self.old self.new (λ initial m. record m { notes = noted time (keep_alives time [] m.notes) m.notes }) }
        ensures answer { WritesAt time self.old (texts (written result packet.new)) (λ m. keep_alives time [] m.notes) }
        ensures packet { result ≡ true → IsPacketText (bytes_of packet.new) }
        ensures kept { result ≡ false → packet.new ≡ packet.old }
        ensures phase { self.new.phase ≡ self.old.phase }
    {
        if !self.history.keep_alive_due(time) {
            return false;
        }
        self.history.say(time);
        keep_alive(time, self.caller, packet);
        true
    }
}

impl History {
    ghost use Rattle.srt_sub.specs.Stands.{ForWhateverNotes};

    /// Whether nothing was sent for a second, so that a KEEPALIVE is due.
    pub fn keep_alive_due(&self, time: u64) -> bool
        ensures { ForWhateverNotes self.now (λ initial agreed notes. result ≡ nat_le keep_alive_after_us (time - last_sent notes)) }
    {
        time.saturating_sub(self.sent) >= KEEP_ALIVE_AFTER_US
    }
}
