//! Samples of each kind of packet except handshakes.

ghost use Rattle.std.specs.Prelude.{◌≡◌, ◌+◌, ◌%◌, ◌*◌, [], ◌∷◌};
ghost use Rattle.srt_samples.specs.Samples.{bytes_of, body_bytes, packet, words, ack_words, loss_bytes};
ghost use Rattle.std.specs.List.{flat_map};
ghost use Rattle.srt_samples.specs.declared.samples.Body.TheVariants.{Handshake as Shakes};

use crate::handshakes::{Block, Handshake};

/// A datagram: the four words of its header, a body of its kind, and bytes after that (section 3).
#[derive(Clone, Copy)]
pub struct Sample<'a> {
    /// The sequence number of a data packet; of a control packet its type, with the top bit set.
    pub first: u32,
    /// The flags and the message number of a data packet; of a control packet the number that its type has, or 0.
    pub second: u32,
    /// The timestamp, in microseconds modulo 2^32.
    pub stamp: u32,
    /// The socket ID of the destination.
    pub destination: u32,
    /// The bytes after the header that its type defines.
    pub body: Body<'a>,
    /// The bytes after the body: the payload of a data packet, or surplus bytes of a control packet.
    pub rest: &'a [u8],
}

/// The body of a control packet, without surplus bytes.
#[derive(Clone, Copy)]
pub enum Body<'a> {
    /// Nothing.
    Nothing,
    /// The acknowledgement point alone (section 3.2.4).
    Point(u32),
    /// These words.
    Words(&'a [u32]),
    /// The seven words of a Full ACK (section 3.2.4).
    Acknowledged(Acknowledged),
    /// A loss list (appendix A).
    Losses(&'a [Loss]),
    /// The first and the last sequence number to drop (section 3.2.9).
    Dropped(u32, u32),
    /// A handshake and its extension blocks (section 3.2.1).
    Handshake(Handshake, &'a [Block<'a>]),
}

/// The first four words of a Full ACK; the other three are 0 (section 3.2.4).
#[derive(Clone, Copy)]
pub struct Acknowledged {
    /// The acknowledgement point: all packets before this sequence number were received.
    pub point: u32,
    /// The round-trip time, in microseconds.
    pub rtt: u32,
    /// The variance of the round-trip time (RTTVar), in microseconds.
    pub variance: u32,
    /// The available receiver buffer size, in packets.
    pub available: u32,
}

/// An entry of a loss list (appendix A).
#[derive(Clone, Copy)]
pub enum Loss {
    /// One sequence number.
    Single(u32),
    /// The first and the last sequence number of a range, the first one below 2^31.
    Range(u32, u32),
}

/// Returns a data packet of a live caller: complete, unencrypted, not retransmitted, with message number 1, and without
/// a payload.
pub fn data_packet<'a>(number: u32) -> Sample<'a>
    ensures { bytes_of result ≡ packet number 0xc000_0001 0 0 [] [] }
{
    Sample {
        first: number,
        second: 0xc000_0001,
        stamp: 0,
        destination: 0,
        body: Body::Nothing,
        rest: &[],
    }
}

/// Returns a control packet of this type, with this second word and this body.
fn control<'a>(kind: u16, second: u32, body: Body<'a>) -> Sample<'a>
    ensures { bytes_of result ≡ packet (0x8000_0000 + 0x1_0000 * (kind % 0x8000)) second 0 0 (body_bytes body.entry) [] }
{
    Sample {
        first: 0x8000_0000 + 0x1_0000 * u32::from(kind % 0x8000),
        second,
        stamp: 0,
        destination: 0,
        body,
        rest: &[],
    }
}

/// Returns a handshake with this body.
pub(crate) fn handshake_of<'a>(handshake: Handshake, blocks: &'a [Block<'a>]) -> Sample<'a>
    ensures { bytes_of result ≡ packet 0x8000_0000 0 0 0 (body_bytes (Shakes handshake blocks.entry)) [] }
{
    control(0, 0, Body::Handshake(handshake, blocks))
}

/// Returns a KEEPALIVE (section 3.2.3).
pub fn keep_alive<'a>() -> Sample<'a>
    ensures { bytes_of result ≡ packet 0x8001_0000 0 0 0 [] [] }
{
    control(1, 0, Body::Nothing)
}

/// Returns an ACK with this number and these words (section 3.2.4).
pub fn ack<'a>(number: u32, list: &'a [u32]) -> Sample<'a>
    ensures { bytes_of result ≡ packet 0x8002_0000 number 0 0 (words list.now) [] }
{
    control(2, number, Body::Words(list))
}

/// Returns a Full ACK with this number (section 3.2.4).
pub fn full_ack<'a>(number: u32, reported: Acknowledged) -> Sample<'a>
    ensures { bytes_of result ≡ packet 0x8002_0000 number 0 0 (words (ack_words reported)) [] }
{
    control(2, number, Body::Acknowledged(reported))
}

/// Returns a Light ACK: the acknowledgement point alone (section 3.2.4).
pub fn light_ack<'a>(point: u32) -> Sample<'a>
    ensures { bytes_of result ≡ packet 0x8002_0000 0 0 0 (words (point ∷ [])) [] }
{
    control(2, 0, Body::Point(point))
}

/// Returns a NAK with this loss list (section 3.2.5).
pub fn nak<'a>(losses: &'a [Loss]) -> Sample<'a>
    ensures { bytes_of result ≡ packet 0x8003_0000 0 0 0 (flat_map loss_bytes losses.now) [] }
{
    control(3, 0, Body::Losses(losses))
}

/// Returns a SHUTDOWN (section 3.2.7).
pub fn shutdown<'a>() -> Sample<'a>
    ensures { bytes_of result ≡ packet 0x8005_0000 0 0 0 [] [] }
{
    control(5, 0, Body::Nothing)
}

/// Returns an ACKACK of the Full ACK with this number (section 3.2.8).
pub fn ack_ack<'a>(number: u32) -> Sample<'a>
    ensures { bytes_of result ≡ packet 0x8006_0000 number 0 0 [] [] }
{
    control(6, number, Body::Nothing)
}

/// Returns a drop request for a message, from its first sequence number to its last (section 3.2.9).
pub fn drop_request<'a>(message: u32, first: u32, last: u32) -> Sample<'a>
    ensures { bytes_of result ≡ packet 0x8007_0000 message 0 0 (words (first ∷ last ∷ [])) [] }
{
    control(7, message, Body::Dropped(first, last))
}

impl<'a> Sample<'a> {
    /// Returns the sample with this timestamp, in microseconds.
    pub fn stamp(self, stamp: u32) -> Sample<'a>
        ensures { bytes_of result ≡ packet self.entry.first self.entry.second stamp self.entry.destination (body_bytes self.entry.body) self.entry.rest.now }
    {
        Sample { stamp, ..self }
    }

    /// Returns the sample with this destination's socket ID.
    pub fn to(self, destination: u32) -> Sample<'a>
        ensures { bytes_of result ≡ packet self.entry.first self.entry.second self.entry.stamp destination (body_bytes self.entry.body) self.entry.rest.now }
    {
        Sample {
            destination,
            ..self
        }
    }

    /// Returns the sample with these bytes at its end: the payload of a data packet, or surplus bytes of a control
    /// packet.
    pub fn payload(self, rest: &'a [u8]) -> Sample<'a>
        ensures { bytes_of result ≡ packet self.entry.first self.entry.second self.entry.stamp self.entry.destination (body_bytes self.entry.body) rest.now }
    {
        Sample { rest, ..self }
    }

    /// Returns the data packet with this second word: its flags and its message number (section 3.1).
    pub fn flags(self, second: u32) -> Sample<'a>
        ensures { bytes_of result ≡ packet self.entry.first second self.entry.stamp self.entry.destination (body_bytes self.entry.body) self.entry.rest.now }
    {
        Sample { second, ..self }
    }
}
