//! The packets that a session sends at the end of an event, one by one: their order, and the data packets.

ghost use Rattle.std.specs.Prelude.{◌≡◌, ℕ, ◌^◌, ◌<◌, List, true, false, if◌then◌else◌};
ghost use Rattle.srt_types.specs.Given.{given as written};
ghost use Rattle.srt_packet.specs.Encoded.{bytes_of, IsPacketText};

use crate::packets::media;
use crate::session::{Phase, Subscriber};
use srt_packet::EncodedPacket;
use srt_types::protocol_limits::MAX_EVENT_PACKETS;

impl Subscriber {
    ghost use Rattle.srt_sub.specs.Emission.{WritesNextAt, EndsAt, WritesNext, Ends};
    ghost use Rattle.srt_sub.specs.inside.Turns.{phase_now, sends_lost, texts, PreparesAt, WritesMedia, SendsMedia};
    ghost use Rattle.srt_sub.specs.Stands.{IsHistory};
    ghost use Rattle.srt_sub.specs.Subscribing.{Terms, Note};
    ghost use Rattle.srt_sendbuf.specs.Sending.{Sending};
    ghost use Rattle.srt_sendbuf.specs.Stands as places;

    /// Writes the data packet that is due, if the event has sent fewer than 64. Returns whether there is one.
    fn next_media(&mut self, time: u64, packet: &mut EncodedPacket) -> bool
        ensures stands { SendsMedia time self.old self.new }
        ensures answer { WritesMedia time self.old (texts (written result packet.new)) }
        ensures packet { result ≡ true → IsPacketText (bytes_of packet.new) }
        ensures same { result ≡ false → packet.new ≡ packet.old }
    {
        if self.given >= MAX_EVENT_PACKETS {
            return false;
        }
        let phase = self.phase_now();
        let again = self.is_again(phase);
        if !media(
            packet,
            &mut self.buffer,
            phase,
            self.history.window,
            self.caller,
        ) {
            return false;
        }
        self.history.give(again, time);
        self.phase = phase_after(again, self.phase);
        self.given += 1;
        true
    }

    /// Returns which data packets are sent next: lost ones first, or only new ones, because the credit for resends is
    /// used up or this event has already sent a new one.
    fn phase_now(&self) -> Phase
        ensures { (agreed : Terms) (initial : ℕ) (notes : List Note) → IsHistory initial agreed self.now.history notes
            → result ≡ phase_now self.now.phase agreed.resend_percent notes }
    {
        match self.phase {
            Phase::New => Phase::New,
            Phase::Lost => {
                if self.history.credit.allows() {
                    Phase::Lost
                } else {
                    Phase::New
                }
            }
        }
    }

    /// Whether the next data packet in this phase was sent before.
    fn is_again(&self, phase: Phase) -> bool
        ensures { (width initial : ℕ) (r : Sending) → places.StandsFor width initial self.now.buffer r → result ≡ sends_lost phase r }
    {
        match phase {
            Phase::Lost => self.buffer.any_lost(),
            Phase::New => false,
        }
    }

    /// Begins or continues the end of an event: raises the credit for resends if that is due, and marks all packets in
    /// flight as lost if it is time to resend all.
    fn prepare(&mut self, time: u64, recent: bool)
        ensures { PreparesAt time recent self.old self.new }
    {
        self.history.renew(time);
        self.presume(time, recent);
    }

    /// Writes the next packet of the event's end, after too-late packets were dropped. `time` is in microseconds since
    /// the opening.
    fn next_packet(&mut self, time: u64, recent: bool, packet: &mut EncodedPacket) -> bool
        ensures some { result ≡ true → WritesNextAt time recent self.old self.new packet.new }
        ensures none { result ≡ false → EndsAt time recent self.old self.new }
        ensures packet { result ≡ true → IsPacketText (bytes_of packet.new) }
        ensures same { result ≡ false → packet.new ≡ packet.old }
    {
        self.prepare(time, recent);
        if self.next_drop(time, packet) {
            return true;
        }
        if self.next_media(time, packet) {
            return true;
        }
        if self.next_keep_alive(time, packet) {
            return true;
        }
        self.given = 0;
        self.phase = Phase::Lost;
        false
    }

    /// Writes the next packet that the session sends at the end of an event, and returns true. Returns false once all
    /// are written: the event is complete, and `packet` is unchanged. Drops too-late packets first. `recent`: a packet
    /// from the caller was received less than a second ago, or in this event. All calls for one event have the same
    /// `now` and `recent`.
    ///
    /// The order is: a drop request (section 3.2.9); lost packets, lowest number first (section 4.8.2), while the
    /// credit for resends lasts if there is a limit (our choice); new packets as the flow window allows (section
    /// 3.2.4). If there is none of these and nothing was sent for a second, a KEEPALIVE (section 3.2.3). There are at
    /// most 64 data packets, and 65 packets in all (our choice). Before that, all packets in flight are marked as lost
    /// if none of them is lost, and both the last data packet and the last ACK that acknowledged more are long enough
    /// ago ([`Resending`](crate::Resending); our choice). Doesn't allocate; a payload is copied once. Since the packets
    /// are written one by one, 65 packets of up to 1472 bytes need no list.
    pub fn emit(&mut self, now: u64, recent: bool, packet: &mut EncodedPacket) -> bool
        requires { now < 2 ^ 62 }
        ensures some { result ≡ true → WritesNext now recent self.old self.new packet.new }
        ensures none { result ≡ false → Ends now recent self.old self.new }
        ensures packet { result ≡ true → IsPacketText (bytes_of packet.new) }
        ensures same { result ≡ false → packet.new ≡ packet.old }
    {
        self.drop_old(now);
        let time = self.time(now);
        self.next_packet(time, recent, packet)
    }
}

/// Returns which data packets follow one that was sent in this phase, for the first time or again.
fn phase_after(again: bool, phase: Phase) -> Phase
    ensures { result ≡ (if again then phase else Phase.New) }
{
    if again { phase } else { Phase::New }
}
