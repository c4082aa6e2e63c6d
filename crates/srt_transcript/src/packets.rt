//! The words of a datagram.

ghost use Rattle.std.specs.Prelude.{◌≤◌, length};

use crate::handshakes::put_handshake;
use crate::losses::{NUMBER, put_losses};
use crate::text::Words;
use srt_packet::{Kind, PacketFault, decode};
use srt_types::protocol_limits::MAX_DATAGRAM;
use srt_types::read_word;

/// The length of a packet's header, in bytes.
const HEADER: usize = 16;

/// Puts a datagram that is too short or too long for a packet.
fn put_no_packet(words: &mut Words, bytes: &[u8]) {
    words.put(b"no packet: ");
    words.put_size(bytes.len());
    if !bytes.is_empty() {
        words.put(b" ");
        words.put_shown(bytes);
    }
}

/// Puts a data packet, given by its number, the second word of its header, the field KK and its payload.
fn put_data(words: &mut Words, number: u32, word: u32, encryption: u8, payload: &[u8]) {
    words.put(b"DATA ");
    words.put_word(number);
    words.put(b" message ");
    words.put_word(word % 0x400_0000);
    if word / 0x400_0000 % 2 == 1 {
        words.put(b" R");
    }
    if encryption > 0 {
        words.put(b" encrypted (KK ");
        words.put_number(u64::from(encryption));
        words.put(b")");
    }
    words.put(b", ");
    words.put_size(payload.len());
    words.put(b" ");
    words.put_shown(payload);
}

/// Puts a field of an ACK, if the bytes have it.
fn put_field(words: &mut Words, name: &[u8], info: &[u8], at: usize) {
    if at <= MAX_DATAGRAM && at + 4 <= info.len() {
        words.put(b", ");
        words.put(name);
        words.put(b" ");
        words.put_word(read_word(info, at));
    }
}

/// Puts an acknowledgement, given by its number, which is 0 in a Light ACK, and the bytes after the packet's header.
fn put_ack(words: &mut Words, number: u32, info: &[u8]) {
    if info.len() < 4 {
        words.put(b"ACK");
        return;
    }
    if number == 0 {
        words.put(b"Light ACK");
    } else {
        words.put(b"Full ACK ");
        words.put_word(number);
    }
    words.put(b": all below ");
    words.put_word(read_word(info, 0) & NUMBER);
    put_field(words, b"RTT", info, 4);
    put_field(words, b"variance", info, 8);
    put_field(words, b"available", info, 12);
}

/// Puts a message drop request.
fn put_drop_request(words: &mut Words, message: u32, first: u32, last: u32) {
    words.put(b"DROPREQ message ");
    words.put_word(message);
    words.put(b", ");
    words.put_word(first & NUMBER);
    words.put(b"-");
    words.put_word(last & NUMBER);
}

/// Puts a packet that was read; `word` is the second word of its header.
fn put_kind(words: &mut Words, kind: &Kind<'_>, word: u32) {
    match kind {
        Kind::Data {
            number,
            encryption,
            payload,
        } => put_data(words, *number, word, *encryption, payload.bytes),
        Kind::Handshake { info } => put_handshake(words, info),
        Kind::KeepAlive => words.put(b"KEEPALIVE"),
        Kind::Ack { number, info } => put_ack(words, *number, info),
        Kind::Nak { info } => {
            words.put(b"NAK ");
            put_losses(words, info);
        }
        Kind::CongestionWarning => words.put(b"congestion warning"),
        Kind::Shutdown => words.put(b"SHUTDOWN"),
        Kind::AckAck { number } => {
            words.put(b"ACKACK ");
            words.put_word(*number);
        }
        Kind::DropRequest {
            message,
            first,
            last,
        } => put_drop_request(words, *message, *first, *last),
        Kind::PeerError => words.put(b"PEERERROR"),
        Kind::UserDefined => words.put(b"user-defined"),
    }
}

/// Puts a control packet with too few bytes after its header, of this type.
fn put_short_control(words: &mut Words, kind: u32) {
    match kind {
        2 => words.put(b"ACK"),
        3 => words.put(b"NAK "),
        _ => words.put(b"DROPREQ"),
    }
}

/// Puts what isn't a packet, although it has a whole header; `word` is the first word of the header.
fn put_fault(words: &mut Words, fault: PacketFault, word: u32) {
    let kind = word / 0x1_0000 % 0x8000;
    match fault {
        PacketFault::NoPayload => words.put(b"no packet: DATA with no payload"),
        PacketFault::ShortControl => put_short_control(words, kind),
        PacketFault::UnknownType | PacketFault::Short | PacketFault::Long => {
            words.put(b"unknown control type ");
            words.put_word(kind);
        }
    }
}

/// Puts the timestamp and the destination of a header.
fn put_header(words: &mut Words, bytes: &[u8])
    requires { 16 ≤ length bytes.now }
{
    words.put(b"; timestamp ");
    words.put_word(read_word(bytes, 8));
    words.put(b", to ");
    words.put_id(read_word(bytes, 12));
}

/// Puts a datagram: its packet, or what it has of one.
pub(crate) fn put_packet(words: &mut Words, bytes: &[u8]) {
    if bytes.len() < HEADER {
        put_no_packet(words, bytes);
        return;
    }
    if bytes.len() > MAX_DATAGRAM {
        put_no_packet(words, bytes);
        return;
    }
    match decode(bytes) {
        Ok(packet) => put_kind(words, &packet.kind, read_word(bytes, 4)),
        Err(fault) => put_fault(words, fault, read_word(bytes, 0)),
    }
    put_header(words, bytes);
}
