//! The difference between two datagrams, in the terms of the draft, for the messages of failed assertions.

ghost use Rattle.std.specs.Prelude.{◌≡◌, IsNone};
ghost use Rattle.srt_samples.specs.Samples.{byte_at};

/// The kind of a packet (section 3.2, table 1).
#[derive(Clone, Copy, Debug, PartialEq, Eq)]
pub enum Kind {
    /// No packet: fewer than 16 bytes.
    TooShort,
    /// A data packet.
    Media,
    /// A handshake.
    Handshake,
    /// A KEEPALIVE.
    KeepAlive,
    /// An ACK.
    Ack,
    /// A NAK.
    Nak,
    /// A SHUTDOWN.
    Shutdown,
    /// An ACKACK.
    AckAck,
    /// A drop request.
    DropRequest,
    /// A control packet of another type.
    Other,
}

/// The part of a datagram that contains a byte (section 3).
#[derive(Clone, Copy, Debug, PartialEq, Eq)]
pub enum Field {
    /// The sequence number, or the type of a control packet: bytes 0 to 3.
    NumberOrType,
    /// Flags and message number, or the number of a control packet: bytes 4 to 7.
    FlagsOrInformation,
    /// The timestamp: bytes 8 to 11.
    Timestamp,
    /// The destination's socket ID: bytes 12 to 15.
    Destination,
    /// The bytes after the header.
    Contents,
}

/// The summary of a datagram.
#[derive(Clone, Copy, Debug, PartialEq, Eq)]
pub struct Outline {
    /// The kind.
    pub kind: Kind,
    /// The length, in bytes.
    pub length: usize,
    /// The sequence number; of a control packet the first word.
    pub first: u32,
    /// The second word.
    pub second: u32,
    /// The timestamp, in microseconds.
    pub stamp: u32,
    /// The destination's socket ID.
    pub destination: u32,
    /// The word in which the two datagrams differ, 0 past the end.
    pub word: u32,
}

/// The first difference between two datagrams.
#[derive(Clone, Copy, Debug, PartialEq, Eq)]
pub struct Difference {
    /// The offset of the first byte that differs, or the length of the shorter datagram.
    pub at: usize,
    /// The part that contains this byte.
    pub field: Field,
    /// The received datagram.
    pub arrived: Outline,
    /// The expected datagram.
    pub wanted: Outline,
}

/// Returns the byte at this offset, or 0 past the end.
fn byte_at(text: &[u8], at: usize) -> u8
    ensures { result ≡ byte_at text.now at }
{
    match text.get(at) {
        Some(byte) => *byte,
        None => 0,
    }
}

/// Returns the word at this offset, with zeros past the end.
fn word_at(text: &[u8], at: usize) -> u32 {
    u32::from_be_bytes([
        byte_at(text, at),
        byte_at(text, at.saturating_add(1)),
        byte_at(text, at.saturating_add(2)),
        byte_at(text, at.saturating_add(3)),
    ])
}

/// Returns the kind of a datagram.
fn kind_of(bytes: &[u8]) -> Kind {
    if bytes.len() < 16 {
        return Kind::TooShort;
    }
    match word_at(bytes, 0) / 0x1_0000 {
        0..=0x7fff => Kind::Media,
        0x8000 => Kind::Handshake,
        0x8001 => Kind::KeepAlive,
        0x8002 => Kind::Ack,
        0x8003 => Kind::Nak,
        0x8005 => Kind::Shutdown,
        0x8006 => Kind::AckAck,
        0x8007 => Kind::DropRequest,
        _ => Kind::Other,
    }
}

/// Returns the part of a datagram at this offset.
fn field_at(at: usize) -> Field {
    match at {
        0..=3 => Field::NumberOrType,
        4..=7 => Field::FlagsOrInformation,
        8..=11 => Field::Timestamp,
        12..=15 => Field::Destination,
        _ => Field::Contents,
    }
}

/// Returns the summary of a datagram, with its word at this offset.
fn outline_of(bytes: &[u8], at: usize) -> Outline {
    Outline {
        kind: kind_of(bytes),
        length: bytes.len(),
        first: word_at(bytes, 0),
        second: word_at(bytes, 4),
        stamp: word_at(bytes, 8),
        destination: word_at(bytes, 12),
        word: word_at(bytes, at),
    }
}

/// Returns the offset of the first byte that differs, or the length of the shorter text.
fn first_other(arrived: &[u8], wanted: &[u8]) -> usize {
    let shorter = arrived.len().min(wanted.len());
    for at in 0..shorter {
        if byte_at(arrived, at) != byte_at(wanted, at) {
            return at;
        }
    }
    shorter
}

/// Returns the first difference of the received datagram from the expected one: `None` if and only if the bytes are the
/// same.
pub fn first_difference(arrived: &[u8], wanted: &[u8]) -> Option<Difference>
    ensures none { IsNone result → arrived.now ≡ wanted.now }
    ensures same { arrived.now ≡ wanted.now → IsNone result }
{
    if arrived == wanted {
        return None;
    }
    let at = first_other(arrived, wanted);
    Some(Difference {
        at,
        field: field_at(at),
        arrived: outline_of(arrived, at - at % 4),
        wanted: outline_of(wanted, at - at % 4),
    })
}
