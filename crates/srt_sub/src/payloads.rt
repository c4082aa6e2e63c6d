//! Which payload a data packet carries, and how many were queued: what the keys of an encrypted session depend on. A
//! session's payloads count from 0, in the order in which they were queued (our choice).

ghost use Rattle.std.specs.Prelude.{◌≡◌, ℕ, ◌+◌, ◌^◌, ◌<◌, ◌≤◌, ◌-◌, length, min, Some, IsNone, IsSome};
ghost use Rattle.srt_types.specs.Capped.{capped};
ghost use Rattle.srt_types.specs.Window.{number_word, offset_of, word_of};
ghost use Rattle.srt_packet.specs.Encoded.{bytes_of, IsPacketText};
ghost use Rattle.srt_sub.specs.Subscribing.{Terms, Subscribing, Report};
ghost use Rattle.srt_sub.specs.Says.{says};

use crate::session::Subscriber;
use srt_packet::EncodedPacket;
use srt_types::{Seq31, read_word};

/// The first word of a DROPREQ (section 3.2.9).
const DROP_REQUEST: u32 = 0x8007_0000;

/// A packet of an event's end.
#[derive(Clone, Copy, Debug, PartialEq, Eq)]
pub enum Emitted {
    /// A drop request (section 3.2.9).
    DropRequest,
    /// A data packet, with the index of its payload: the k-th payload that was queued in the session, from 0, has the
    /// index k.
    Data(u64),
    /// A KEEPALIVE (section 3.2.3).
    KeepAlive,
}

/// Returns how many numbers after `front` a number is, modulo 2^31.
fn steps_from(front: Seq31, number: Seq31) -> u32
    ensures { result ≡ offset_of (word_of number) (word_of front) }
{
    number.get().wrapping_sub(front.get()) & 0x7fff_ffff
}

impl Subscriber {
    ghost use Rattle.srt_sub.specs.Stands.{StandsIn};
    ghost use Rattle.srt_sendbuf.specs.Sending.{front};
    ghost use Rattle.srt_sub.specs.Emission.{WritesNext, Ends};
    ghost use Rattle.srt_sub.specs.Payloads.{CountsQueued, TellsNext, IsStored, emitted_as};

    /// Returns how many payloads were queued in the session so far, up to 2^64 - 1. O(1).
    pub fn queued_payloads(&self) -> u64
        ensures { CountsQueued self.now result }
    {
        let queued = self.counts.queued;
        queued
    }

    /// Returns the index of the stored payload with this sequence number.
    fn payload_with(&self, number: Seq31) -> u64
        ensures { (terms : Terms) (initial opening caller time given k : ℕ) (m : Subscribing) → StandsIn terms initial opening caller time given self.now m
            → length m.sending.queue < 2 ^ 64 → word_of number ≡ number_word initial k → front m.sending ≤ k → k < length m.sending.queue → result ≡ k }
    {
        let front = self
            .queued_payloads()
            .saturating_sub(u64::from(self.buffer.stored()));
        let steps = steps_from(self.buffer.front_number(), number);
        front.saturating_add(u64::from(steps))
    }

    /// Returns which packet of an event's end this is.
    fn kind_of(&self, packet: &EncodedPacket) -> Emitted
        requires { 4 ≤ length (bytes_of packet.now) }
        ensures { (terms : Terms) (initial opening caller time given t : ℕ) (m : Subscribing) (report : Report)
            → StandsIn terms initial opening caller time given self.now m
            → length m.sending.queue < 2 ^ 64 → bytes_of packet.now ≡ says caller initial t report → IsStored m.sending report
            → (IsNone (emitted_as report) → ⊥) → Some result ≡ emitted_as report }
    {
        let word = read_word(packet.bytes(), 0);
        match Seq31::new(word) {
            Some(number) => Emitted::Data(self.payload_with(number)),
            None => {
                if word == DROP_REQUEST {
                    Emitted::DropRequest
                } else {
                    Emitted::KeepAlive
                }
            }
        }
    }

    /// Writes the next packet of the event's end as [`emit`](Subscriber::emit) does, and returns which one it is; None
    /// once all are written. The payload of a data packet is stored: it is one of the last 8192 that were queued, and it is
    /// the same one in each packet with its index. If the session is held, an index that wasn't sent before is below the
    /// bound. O(1) in addition to `emit`.
    pub fn emit_indexed(
        &mut self,
        now: u64,
        recent: bool,
        packet: &mut EncodedPacket,
    ) -> Option<Emitted>
        requires { now < 2 ^ 62 }
        ensures told { TellsNext now recent self.old result }
        ensures some { IsSome result → WritesNext now recent self.old self.new packet.new }
        ensures none { IsNone result → Ends now recent self.old self.new }
        ensures packet { IsSome result → IsPacketText (bytes_of packet.new) }
        ensures same { IsNone result → packet.new ≡ packet.old }
    {
        if !self.emit(now, recent, packet) {
            return None;
        }
        Some(self.kind_of(packet))
    }
}
