//! The packets that a session processes: ACK, NAK and SHUTDOWN. Data packets are ignored but counted.

ghost use Rattle.std.specs.Prelude.{◌≡◌, ◌^◌, ◌<◌, ◌≤◌, length, false};
ghost use Rattle.srt_types.specs.Words.{word_at};
ghost use Rattle.srt_loss.specs.Reading.{losses_in};
ghost use Rattle.srt_sendbuf.specs.Sending.{acknowledged_at};
ghost use Rattle.srt_packet.specs.Encoded.{bytes_of, IsPacketText};
ghost use Rattle.srt_packet.specs.View.{body_of};
ghost use Rattle.srt_sub.specs.Heard.{heard_of, more_of, requested_from};
ghost use Rattle.srt_sub.specs.Subscribing.{expired, took, answers, with_ack, with_nak, ack_reports, noted};

use crate::packets::acked;
use crate::session::Subscriber;
use srt_packet::{EncodedPacket, Kind, PacketRef};
use srt_types::{Seq31, read_word};

/// The immediate result of a packet from the caller.
#[derive(Clone, Copy, Debug, PartialEq, Eq)]
pub enum Took {
    /// No packet is to be sent.
    Nothing,
    /// The ACKACK that was written into `answer` is to be sent.
    Answer,
    /// The caller ended the session by a SHUTDOWN (section 3.2.7).
    Ended,
}

impl Subscriber {
    ghost use Rattle.srt_sub.specs.Stands.{texts_of, Becomes, BecomesAt, BecomesBy, WritesAt, WritesBy};
    ghost use Rattle.srt_sub.specs.declared.hearing.Took.TheVariants.{Answer};
    ghost use Rattle.srt_sub.specs.Endings.{is_ended, is_shutdown};

    /// Processes the body of an ACK (section 3.2.4); `time` is in microseconds since the opening. If its number is
    /// outside the range that an ACK may have, nothing changes.
    fn acknowledge(&mut self, info: &[u8], time: u64)
        requires { 4 ≤ length info.now }
        ensures { BecomesAt time self.old self.new (λ initial m. with_ack time (more_of info.now) (acknowledged_at initial (word_at info.now 0) m.sending) m) }
    {
        let Some(number) = Seq31::new(read_word(info, 0)) else {
            return;
        };
        let grows = self.buffer.grows(number);
        if !self.buffer.ack(number) {
            return;
        }
        self.history.acknowledge(grows, info, time);
    }

    /// Answers an ACK by an ACKACK with its number, `mark`, at a time in microseconds since the opening (section
    /// 3.2.8). An ACK with the number 0, which is a Light or Small ACK, isn't answered.
    fn answer(&mut self, mark: u32, time: u64, answer: &mut EncodedPacket) -> Took
        ensures stands { BecomesAt time self.old self.new (λ initial m. record m { notes = noted time (ack_reports mark) m.notes }) }
        ensures answer { WritesAt time self.old (texts_of result answer.new) (λ m. ack_reports mark) }
        ensures packet { result ≡ Answer → IsPacketText (bytes_of answer.new) }
        ensures kept { (result ≡ Answer → ⊥) → answer.new ≡ answer.old }
        ensures goes_on { is_ended result ≡ false }
    {
        if mark == 0 {
            return Took::Nothing;
        }
        self.history.say(time);
        acked(mark, time, self.caller, answer);
        Took::Answer
    }

    /// Processes the body of a NAK, a loss list (section 3.2.5). An invalid one changes nothing.
    fn take_losses(&mut self, info: &[u8])
        ensures { Becomes self.old self.new (λ initial m. with_nak (requested_from initial (losses_in info.now)) m) }
    {
        let Ok(losses) = srt_loss::read(info) else {
            return;
        };
        self.counts.ask();
        if let Some(run) = self.buffer.lose(&losses) {
            self.history.note_drop_request(run);
        }
    }

    /// Processes a packet from the caller, after dropping too-late packets: an ACK, a NAK or a SHUTDOWN. A data packet
    /// is counted and otherwise ignored; other kinds change nothing. An ACK whose second header word isn't 0 is
    /// answered by an ACKACK with that word, even if its number is outside the range that an ACK may have (section
    /// 3.2.8). The ACKACK is written into `answer`, which is otherwise unchanged. Linear in the packets that an ACK
    /// acknowledges, or in a loss list and its numbers in flight; doesn't allocate.
    pub fn datagram(&mut self, packet: &PacketRef<'_>, now: u64, answer: &mut EncodedPacket) -> Took
        requires { now < 2 ^ 62 }
        ensures stands { BecomesBy now self.old self.new (λ terms initial time m. took time (heard_of initial packet.now.kind) (expired terms time m)) }
        ensures answer { WritesBy now self.old (texts_of result answer.new) (λ initial. answers (heard_of initial packet.now.kind)) }
        ensures packet { result ≡ Answer → IsPacketText (bytes_of answer.new) }
        ensures kept { (result ≡ Answer → ⊥) → answer.new ≡ answer.old }
        ensures ended { is_ended result ≡ is_shutdown (body_of packet.now.kind) }
    {
        self.drop_old(now);
        let time = self.time(now);
        match packet.kind {
            Kind::Ack { number, info } => {
                if info.len() < 4 {
                    return Took::Nothing;
                }
                self.acknowledge(info, time);
                self.answer(number, time, answer)
            }
            Kind::Nak { info } => {
                self.take_losses(info);
                Took::Nothing
            }
            Kind::Data {
                number: _,
                encryption: _,
                payload: _,
            } => {
                self.counts.misdirect();
                Took::Nothing
            }
            Kind::Shutdown => Took::Ended,
            _ => Took::Nothing,
        }
    }
}
