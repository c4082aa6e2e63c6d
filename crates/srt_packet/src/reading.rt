//! Packets decoded from borrowed bytes (draft-sharabayko-srt-01, section 3).

ghost use Rattle.std.specs.Prelude.{◌≡◌, ◌+◌, ◌^◌, ◌<◌, ◌≤◌, ◌++◌, length, IfOk, IfErr, IsOkAnd};
ghost use Rattle.srt_packet.specs.Grammar.{Packet as ThePacket, Spells};
ghost use Rattle.srt_packet.specs.Reading.{data_in, control_in, body_in, packet_after, packet_in, IsFirstFault};
ghost use Rattle.srt_packet.specs.View.{body_read, packet_of, packet_read};

use srt_types::protocol_limits::{MAX_DATAGRAM, MAX_PAYLOAD};
use srt_types::{PayloadRef, read_word};

/// Why bytes are no packet. If several faults apply, the first variant is returned (the order is our choice).
#[derive(Clone, Copy, Debug, PartialEq, Eq)]
pub enum PacketFault {
    /// Fewer than 16 bytes: the header is incomplete.
    Short,
    /// More than 1472 bytes: 1500 less the headers of IPv4 and UDP.
    Long,
    /// A data packet with a header and no payload.
    NoPayload,
    /// A control packet of a type that section 3.2 doesn't list: 9 to 0x7ffe.
    UnknownType,
    /// An ACK or a NAK with fewer than 4 bytes after the header, or a drop request with fewer than 8.
    ShortControl,
}

/// The kind of a packet, and its content apart from timestamp and destination.
#[derive(Clone, Copy, Debug)]
pub enum Kind<'a> {
    /// A data packet (section 3.1).
    Data {
        /// The packet sequence number: below 2^31.
        number: u32,
        /// The field KK, 0 to 3: 0 if the payload isn't encrypted.
        encryption: u8,
        /// The payload: 1 to 1456 bytes.
        payload: PayloadRef<'a>,
    },
    /// A handshake (section 3.2.1). Its content isn't checked here.
    Handshake {
        /// All bytes after the header: 0 to 1456.
        info: &'a [u8],
    },
    /// A keep-alive (section 3.2.3).
    KeepAlive,
    /// An acknowledgement of any form (section 3.2.4).
    Ack {
        /// The acknowledgement number: word 1 of the header. 0 in Light ACKs and Small ACKs.
        number: u32,
        /// All bytes after the header: 4 to 1456. All packets before the number in its first word are acknowledged.
        info: &'a [u8],
    },
    /// A loss report (section 3.2.5).
    Nak {
        /// All bytes after the header, 4 to 1456: a loss list, unchecked.
        info: &'a [u8],
    },
    /// A congestion warning (section 3.2.6). Bytes after the header are ignored.
    CongestionWarning,
    /// The peer ends its session (section 3.2.7).
    Shutdown,
    /// The acknowledgement of an acknowledgement (section 3.2.8).
    AckAck {
        /// The acknowledgement number of the Full ACK that it confirms: word 1 of the header, unchecked.
        number: u32,
    },
    /// A message drop request (section 3.2.9).
    DropRequest {
        /// The message number: word 1 of the header, unchecked.
        message: u32,
        /// The first sequence number to drop, as a word of any value.
        first: u32,
        /// The last sequence number to drop, as a word of any value.
        last: u32,
    },
    /// A peer error (section 3.2.10). Bytes after the header are ignored.
    PeerError,
    /// A user-defined packet: type 0x7fff (section 3.2). Bytes after the header are ignored.
    UserDefined,
}

/// A decoded packet. It borrows the bytes of its datagram.
#[derive(Clone, Copy, Debug)]
pub struct PacketRef<'a> {
    /// The timestamp, in microseconds modulo 2^32.
    pub stamp: u32,
    /// The socket ID of the receiver; 0 in a handshake that opens a connection.
    pub dest: u32,
    /// The rest of the packet.
    pub kind: Kind<'a>,
}

#[inline(always)]
fn data_of(number: u32, word1: u32, rest: &[u8]) -> Result<Kind<'_>, PacketFault>
    requires most { length rest.now ≤ 1456 }
    ensures { body_read result ≡ data_in number word1 rest.now }
{
    if rest.is_empty() {
        return Err(PacketFault::NoPayload);
    }
    Ok(Kind::Data {
        number,
        encryption: ((word1 >> 27) & 3) as u8,
        payload: PayloadRef { bytes: rest },
    })
}

#[inline(always)]
fn control_of(kind: u32, word1: u32, rest: &[u8]) -> Result<Kind<'_>, PacketFault>
    ensures { body_read result ≡ control_in kind word1 rest.now }
{
    match kind {
        0x8000 => Ok(Kind::Handshake { info: rest }),
        0x8001 => Ok(Kind::KeepAlive),
        0x8002 => {
            if rest.len() < 4 {
                return Err(PacketFault::ShortControl);
            }
            Ok(Kind::Ack {
                number: word1,
                info: rest,
            })
        }
        0x8003 => {
            if rest.len() < 4 {
                return Err(PacketFault::ShortControl);
            }
            Ok(Kind::Nak { info: rest })
        }
        0x8004 => Ok(Kind::CongestionWarning),
        0x8005 => Ok(Kind::Shutdown),
        0x8006 => Ok(Kind::AckAck { number: word1 }),
        0x8007 => {
            if rest.len() < 8 {
                return Err(PacketFault::ShortControl);
            }
            Ok(Kind::DropRequest {
                message: word1,
                first: read_word(rest, 0),
                last: read_word(rest, 4),
            })
        }
        0x8008 => Ok(Kind::PeerError),
        0xffff => Ok(Kind::UserDefined),
        _ => Err(PacketFault::UnknownType),
    }
}

#[inline(always)]
fn kind_of(word0: u32, word1: u32, rest: &[u8]) -> Result<Kind<'_>, PacketFault>
    requires most { length rest.now ≤ 1456 }
    ensures { body_read result ≡ body_in word0 word1 rest.now }
{
    if word0 < 1 << 31 {
        data_of(word0, word1, rest)
    } else {
        control_of(word0 >> 16, word1, rest)
    }
}

/// Returns the packet with the first 16 bytes of `head` as its header and the bytes `rest` after it. Bytes of `head`
/// after the first 16 are ignored.
#[inline(always)]
fn packet_of_parts<'a>(head: &[u8], rest: &'a [u8]) -> Result<PacketRef<'a>, PacketFault>
    requires header { 16 ≤ length head.now }
    requires most { length rest.now ≤ 1456 }
    ensures { packet_read result ≡ packet_after head.now rest.now }
{
    let kind = kind_of(read_word(head, 0), read_word(head, 4), rest)?;
    Ok(PacketRef {
        stamp: read_word(head, 8),
        dest: read_word(head, 12),
        kind,
    })
}

/// Reads the bytes of a datagram as a packet. Copies nothing. O(1).
#[inline(always)]
pub fn decode(bytes: &[u8]) -> Result<PacketRef<'_>, PacketFault>
    // The result as a function of the bytes.
    ensures value { packet_read result ≡ packet_in bytes.now }
    // The bytes encode the returned packet.
    ensures found { IfOk result (λ p. Spells bytes.now (packet_of p)) }
    // A packet that the bytes encode is returned, so a fault is returned only if they encode none.
    ensures only { (packet : ThePacket) → Spells bytes.now packet → IsOkAnd result (λ p. packet_of p ≡ packet) }
    // The fault is the first that applies.
    ensures fault { IfErr result (λ fault. IsFirstFault bytes.now fault) }
{
    if bytes.len() < 16 {
        return Err(PacketFault::Short);
    }
    if bytes.len() > MAX_DATAGRAM {
        return Err(PacketFault::Long);
    }
    packet_of_parts(bytes, &bytes[16..])
}

/// Reads the first 16 bytes of a datagram and the bytes after them as a packet. The result is that of [`decode`] for
/// the concatenation, without [`PacketFault::Short`]. O(1).
#[inline(always)]
pub fn decode_parts<'a>(head: &[u8; 16], body: &'a [u8]) -> Result<PacketRef<'a>, PacketFault>
    // The result as a function of the bytes.
    ensures value { packet_read result ≡ packet_in (head.now ++ body.now) }
    // The bytes encode the returned packet.
    ensures found { IfOk result (λ p. Spells (head.now ++ body.now) (packet_of p)) }
    // A packet that the bytes encode is returned, so a fault is returned only if they encode none.
    ensures only { (packet : ThePacket) → Spells (head.now ++ body.now) packet → IsOkAnd result (λ p. packet_of p ≡ packet) }
    // The fault is the first that applies.
    ensures fault { IfErr result (λ fault. IsFirstFault (head.now ++ body.now) fault) }
{
    if body.len() > MAX_PAYLOAD {
        return Err(PacketFault::Long);
    }
    packet_of_parts(head, body)
}
