//! The packets that a publisher's session sends at the end of an event: an ACK, a NAK and a KEEPALIVE
//! (draft-sharabayko-srt-01, sections 3.2.3 to 3.2.5). The timestamp of each is the session's time, and its
//! destination is the caller's socket ID (section 3).

ghost use Rattle.std.specs.Prelude.{◌≡◌, ℕ, ◌+◌, ◌^◌, ◌<◌, true, false};
ghost use Rattle.srt_types.specs.Given.{given};
ghost use Rattle.srt_packet.specs.Encoded.{bytes_of, IsPacketText};
ghost use Rattle.srt_packet.specs.Text.{IsWritable};
ghost use Rattle.srt_pub.specs.Publishing.{acks, reports, reported};
ghost use Rattle.srt_pub.specs.Says.{body_bytes};
ghost use Rattle.srt_pub.specs.Calls.{listed};

use crate::acknowledgements::State;
use crate::reports::Reports;
use crate::session::Publisher;
use srt_packet::{Body, EncodedPacket, Packet};

impl Publisher {
    ghost use Rattle.srt_pub.specs.Stands.{opening_of};
    ghost use Rattle.srt_pub.specs.Sent.{packets_of};
    ghost use Rattle.srt_pub.specs.Changes.{Becomes, BecomesAt, Writes, WritesAt, IsPacketIf, KeptIfNot, with_sent};

    /// Ends an event. Writes the ACK, the NAK and the KEEPALIVE that are due at `now` into their buffers, and returns
    /// which were written. They are sent in this order; the other buffers are unchanged. At most linear in the
    /// distance from the first missing to the highest received number; doesn't allocate.
    pub fn transmit(
        &mut self,
        now: u64,
        ack: &mut EncodedPacket,
        nak: &mut EncodedPacket,
        keep_alive: &mut EncodedPacket,
    ) -> Reports
        requires early { now < 2 ^ 62 }
        ensures stands { BecomesAt now self.old self.new reported }
        ensures opening { opening_of self.new ≡ opening_of self.old }
        ensures bytes { WritesAt now self.old (packets_of result ack.new nak.new keep_alive.new) reports }
        ensures each { IsPacketIf result.ack ack.new × IsPacketIf result.nak nak.new × IsPacketIf result.keep_alive keep_alive.new }
        ensures kept { KeptIfNot result.ack ack.old ack.new × KeptIfNot result.nak nak.old nak.new × KeptIfNot result.keep_alive keep_alive.old keep_alive.new }
    {
        let time = now.saturating_sub(self.agreed.opening);
        let is_ack = self.ack(time, ack);
        let is_nak = self.nak(time, nak);
        let is_keep_alive = self.keep_alive(time, is_ack, is_nak, keep_alive);
        self.see();
        Reports {
            ack: is_ack,
            nak: is_nak,
            keep_alive: is_keep_alive,
        }
    }

    /// Writes the ACK that is due. Returns whether one is due; if not, `packet` is unchanged.
    fn ack(&mut self, time: u64, packet: &mut EncodedPacket) -> bool
        ensures stands { Becomes self.old self.new (λ terms initial m. with_sent time (acks terms time m) m) }
        ensures opening { opening_of self.new ≡ opening_of self.old }
        ensures bytes { Writes time self.old (listed (given result packet.new)) acks }
        ensures packet { result ≡ true → IsPacketText (bytes_of packet.new) }
        ensures kept { result ≡ false → packet.new ≡ packet.old }
    {
        let point = self.buffer.ack_point();
        let available = self.buffer.available();
        let state = State { point, available };
        let is_full = self.log.is_window_full(time, available);
        self.counts.fill(is_full);
        let mut body = Body::KeepAlive;
        if self.log.ack(time, state, &mut body) {
            self.encode(time, body, packet);
            return true;
        }
        false
    }

    /// Writes a packet with this body. Its timestamp is the session's time, modulo 2^32.
    pub(crate) fn encode(&self, time: u64, body: Body<'_>, packet: &mut EncodedPacket)
        requires { IsWritable body }
        ensures bytes { (caller : ℕ) → self.now.agreed.caller ≡ caller → bytes_of packet.new ≡ body_bytes caller time body.entry }
        ensures packet { IsPacketText (bytes_of packet.new) }
    {
        packet.write(&Packet {
            stamp: (time % (1 << 32)) as u32,
            dest: self.agreed.caller,
            body,
        });
    }
}
