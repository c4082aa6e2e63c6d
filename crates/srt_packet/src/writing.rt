//! Packets encoded into a buffer (draft-sharabayko-srt-01, section 3).

ghost use Rattle.std.specs.Prelude.{◌≡◌, ℕ, ◌+◌, ◌*◌, ◌≤◌, ◌++◌, length, take, drop};
ghost use Rattle.srt_packet.specs.Grammar.{Spells};
ghost use Rattle.srt_packet.specs.Reading.{packet_in};
ghost use Rattle.srt_packet.specs.Sent.{sent, CanBeSent};
ghost use Rattle.srt_packet.specs.Text.{text, word0_of, word1_of, rest_of, IsWritable};

use arrayvec::ArrayVec;
use srt_types::protocol_limits::{MAX_ANSWER_WITH_KEYS, MAX_DATAGRAM, MAX_NAK_WORDS};
use srt_types::{Msg26, PayloadRef, Seq31, write_at, write_words};

/// The rates of received packets that a Full ACK reports (section 3.2.4).
#[derive(Clone, Copy, Debug, PartialEq, Eq)]
pub struct Rates {
    /// The packets receiving rate, in packets per second.
    pub packets: u32,
    /// The estimated link capacity, in packets per second.
    pub capacity: u32,
    /// The receiving rate, in bytes per second.
    pub bytes: u32,
}

/// The kind of a packet to be sent, and its content apart from timestamp and destination. It borrows its payload, so
/// that its construction copies none.
#[derive(Drop)]
pub enum Body<'a> {
    /// A data packet: a complete message in one packet, in order, unencrypted (section 3.1).
    Media {
        /// The packet sequence number.
        number: Seq31,
        /// The message number.
        message: Msg26,
        /// The field R: whether this is a retransmission.
        again: bool,
        /// The payload: 1 to 1456 bytes.
        payload: PayloadRef<'a>,
    },
    /// A handshake: all bytes after the header, at most 192, those of an answer with keys (section 3.2.1).
    Handshake(ArrayVec<u8, MAX_ANSWER_WITH_KEYS>),
    /// A keep-alive (section 3.2.3).
    KeepAlive,
    /// A Full ACK (section 3.2.4): seven words.
    FullAck {
        /// The acknowledgement number, which its ACKACK repeats. It should be 1 or more, since Light ACKs have 0.
        number: u32,
        /// The acknowledgement point: all packets before this number are acknowledged.
        point: Seq31,
        /// The round-trip time, in microseconds.
        round_trip: u32,
        /// The variance of the round-trip time (RTTVar), in microseconds.
        variance: u32,
        /// The available receiver buffer size, in packets.
        available: u32,
        /// The rates: the last three words.
        rates: Rates,
    },
    /// A Light ACK, of one word (section 3.2.4).
    LightAck {
        /// The acknowledgement point: all packets before this number are acknowledged.
        point: Seq31,
    },
    /// A loss report (section 3.2.5).
    Nak {
        /// The words of the loss list (appendix A): 1 to 64. An empty list can't be encoded.
        losses: ArrayVec<u32, MAX_NAK_WORDS>,
    },
    /// The acknowledgement of a Full ACK (section 3.2.8).
    AckAck {
        /// The acknowledgement number of the Full ACK that it confirms.
        number: u32,
    },
    /// A message drop request (section 3.2.9).
    DropRequest {
        /// The message number of the first packet to drop.
        message: Msg26,
        /// The first sequence number to drop.
        first: Seq31,
        /// The last sequence number to drop, included.
        last: Seq31,
    },
    /// The end of the session (section 3.2.7).
    Shutdown,
}

/// A packet to be sent. It doesn't allocate.
#[derive(Drop)]
pub struct Packet<'a> {
    /// The timestamp, in microseconds modulo 2^32.
    pub stamp: u32,
    /// The receiver's socket ID.
    pub dest: u32,
    /// The rest of the packet.
    pub body: Body<'a>,
}

#[inline(always)]
fn first_words(body: &Body<'_>) -> (u32, u32)
    ensures first { result.0 ≡ word0_of body.now }
    ensures second { result.1 ≡ word1_of body.now }
{
    match body {
        Body::Media {
            number,
            message,
            again,
            payload: _,
        } => (
            number.get(),
            (if *again { 0xe400_0000 } else { 0xe000_0000 }) + message.get(),
        ),
        Body::Handshake(_) => (0x8000_0000, 0),
        Body::KeepAlive => (0x8001_0000, 0),
        Body::FullAck { number, .. } => (0x8002_0000, *number),
        Body::LightAck { .. } => (0x8002_0000, 0),
        Body::Nak { .. } => (0x8003_0000, 0),
        Body::Shutdown => (0x8005_0000, 0),
        Body::AckAck { number } => (0x8006_0000, *number),
        Body::DropRequest { message, .. } => (0x8007_0000, message.get()),
    }
}

/// Writes the bytes after the header from the offset `at` on, and returns the offset of their end.
#[tactic(auto, using(srt_types::proofs::WordBytes::length_of_words))]
#[inline(always)]
fn write_rest(body: &Body<'_>, out: &mut [u8], at: usize) -> usize
    requires room { at + 1456 ≤ length out.old }
    ensures fits { length (rest_of body.now) ≤ 1456 }
    ensures end { result ≡ at + length (rest_of body.now) }
    ensures written { take result out.new ≡ take at out.old ++ rest_of body.now }
    ensures kept { (k : ℕ) → result ≤ k → drop k out.new ≡ drop k out.old }
{
    match body {
        Body::Media { payload, .. } => write_at(out, at, payload.bytes),
        Body::Handshake(info) => write_at(out, at, info.as_slice()),
        Body::FullAck {
            number: _,
            point,
            round_trip,
            variance,
            available,
            rates,
        } => write_words(
            out,
            at,
            &[
                point.get(),
                *round_trip,
                *variance,
                *available,
                rates.packets,
                rates.capacity,
                rates.bytes,
            ],
        ),
        Body::LightAck { point } => write_words(out, at, &[point.get()]),
        Body::Nak { losses } => write_words(out, at, losses.as_slice()),
        Body::DropRequest {
            message: _,
            first,
            last,
        } => write_words(out, at, &[first.get(), last.get()]),
        Body::KeepAlive | Body::AckAck { .. } | Body::Shutdown => at,
    }
}

/// Writes a packet to the front of the buffer, and returns its length in bytes: 16 to 1472. The rest of the buffer is
/// unchanged. The subtype of a control packet is written as 0. Linear in the length; doesn't allocate.
#[inline(always)]
pub fn encode(packet: &Packet<'_>, out: &mut [u8; MAX_DATAGRAM]) -> usize
    requires { IsWritable packet.now.body }
    ensures within { result ≤ 1472 }
    ensures len { result ≡ length (text packet.now) }
    ensures written { take result out.new ≡ text packet.now }
    ensures kept { drop result out.new ≡ drop result out.old }
    // What is written conforms to the grammar, and reading it returns the same packet.
    ensures spelled { Spells (take result out.new) (sent packet.now) }
    ensures read { packet_in (take result out.new) ≡ Ok (sent packet.now) }
    ensures can_be_sent { CanBeSent packet.now }
{
    let (word0, word1) = first_words(&packet.body);
    let stamp = packet.stamp;
    let dest = packet.dest;
    let mut end = write_at(out, 0, &word0.to_be_bytes());
    end = write_at(out, end, &word1.to_be_bytes());
    end = write_at(out, end, &stamp.to_be_bytes());
    end = write_at(out, end, &dest.to_be_bytes());
    write_rest(&packet.body, out, end)
}
