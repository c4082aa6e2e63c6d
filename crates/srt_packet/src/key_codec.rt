//! Packets that bring key material messages, decoded and encoded (draft-sharabayko-srt-01, section 3.2.2).

ghost use Rattle.std.specs.Prelude.{◌≡◌, ℕ, ◌+◌, ◌≤◌, ◌++◌, length, take, drop, IfSome, IsSomeAnd, Some};
ghost use Rattle.srt_types.specs.Words.{word};
ghost use Rattle.srt_packet.specs.KeyPacket.{KeyPacket as ThePacket, SpellsKeyPacket, key_word0, key_kind_of, key_packet_after, key_packet_in};
ghost use Rattle.srt_packet.specs.KeyPacket.{key_packet_of, key_packet_read, key_packet_text};

use crate::key_packet::{KeyPacketKind, KeyPacketRef};
use srt_types::protocol_limits::{MAX_DATAGRAM, MAX_PAYLOAD};
use srt_types::{read_word, write_at};

fn kind_of(word0: u32) -> Option<KeyPacketKind>
    ensures { result ≡ key_kind_of word0 }
{
    match word0 {
        0xffff_0003 => Some(KeyPacketKind::Request),
        0xffff_0004 => Some(KeyPacketKind::Response),
        _ => None,
    }
}

/// Returns the packet with the first 16 bytes of `head` as its header and the bytes `rest` after it. Bytes of `head` after
/// the first 16 are ignored.
fn packet_of_parts<'a>(head: &[u8], rest: &'a [u8]) -> Option<KeyPacketRef<'a>>
    requires { 16 ≤ length head.now }
    ensures { key_packet_read result ≡ key_packet_after head.now rest.now }
{
    match kind_of(read_word(head, 0)) {
        None => None,
        Some(kind) => Some(KeyPacketRef {
            stamp: read_word(head, 8),
            dest: read_word(head, 12),
            kind,
            info: rest,
        }),
    }
}

/// The result of [`decode_key_packet`].
fn parse(bytes: &[u8]) -> Option<KeyPacketRef<'_>>
    ensures { key_packet_read result ≡ key_packet_in bytes.now }
{
    if bytes.len() < 16 {
        return None;
    }
    if bytes.len() > MAX_DATAGRAM {
        return None;
    }
    packet_of_parts(bytes, &bytes[16..])
}

/// The result of [`decode_key_parts`].
fn parse_parts<'a>(head: &[u8; 16], body: &'a [u8]) -> Option<KeyPacketRef<'a>>
    ensures { key_packet_read result ≡ key_packet_in (head.now ++ body.now) }
{
    if body.len() > MAX_PAYLOAD {
        return None;
    }
    packet_of_parts(head, body)
}

/// Reads the bytes of a datagram as a packet that brings a key material message: a KMREQ or a KMRSP. None if they are no
/// packet, or another one. The message isn't checked. [`decode`](crate::decode) reads the same bytes as
/// [`UserDefined`](crate::Kind::UserDefined). Copies nothing. O(1).
pub fn decode_key_packet(bytes: &[u8]) -> Option<KeyPacketRef<'_>>
    // The result as a function of the bytes.
    ensures value { key_packet_read result ≡ key_packet_in bytes.now }
    // The bytes encode the returned packet.
    ensures found { IfSome result (λ p. SpellsKeyPacket bytes.now (key_packet_of p)) }
    // A packet that the bytes encode is returned.
    ensures only { (packet : ThePacket) → SpellsKeyPacket bytes.now packet → IsSomeAnd result (λ p. key_packet_of p ≡ packet) }
{
    parse(bytes)
}

/// Reads the first 16 bytes of a datagram and the bytes after them as a packet that brings a key material message. The
/// result is that of [`decode_key_packet`] for the concatenation. O(1).
pub fn decode_key_parts<'a>(head: &[u8; 16], body: &'a [u8]) -> Option<KeyPacketRef<'a>>
    // The result as a function of the bytes.
    ensures value { key_packet_read result ≡ key_packet_in (head.now ++ body.now) }
    // The bytes encode the returned packet.
    ensures found { IfSome result (λ p. SpellsKeyPacket (head.now ++ body.now) (key_packet_of p)) }
    // A packet that the bytes encode is returned.
    ensures only { (packet : ThePacket) → SpellsKeyPacket (head.now ++ body.now) packet → IsSomeAnd result (λ p. key_packet_of p ≡ packet) }
{
    parse_parts(head, body)
}

fn word0(kind: KeyPacketKind) -> u32
    ensures { result ≡ key_word0 kind }
{
    match kind {
        KeyPacketKind::Request => 0xffff_0003,
        KeyPacketKind::Response => 0xffff_0004,
    }
}

/// Writes the four words of the header, and returns 16.
fn write_header(kind: KeyPacketKind, stamp: u32, dest: u32, out: &mut [u8; MAX_DATAGRAM]) -> usize
    ensures end { result ≡ 16 }
    ensures written { take result out.new ≡ word (key_word0 kind) ++ word 0 ++ word stamp ++ word dest }
    ensures kept { (k : ℕ) → result ≤ k → drop k out.new ≡ drop k out.old }
{
    let mut end = write_at(out, 0, &word0(kind).to_be_bytes());
    end = write_at(out, end, &[0; 4]);
    end = write_at(out, end, &stamp.to_be_bytes());
    write_at(out, end, &dest.to_be_bytes())
}

/// Writes a packet to the front of the buffer, and returns its length in bytes: 16, and those of the message, which has at
/// most 1456. The rest of the buffer is unchanged. Word 1 is written as 0. Linear in the length; doesn't allocate.
pub fn encode_key_packet(packet: &KeyPacketRef<'_>, out: &mut [u8; MAX_DATAGRAM]) -> usize
    requires { length packet.now.info.now ≤ 1456 }
    ensures within { result ≤ 1472 }
    ensures len { result ≡ 16 + length packet.now.info.now }
    ensures written { take result out.new ≡ key_packet_text (key_packet_of packet.now) }
    ensures kept { drop result out.new ≡ drop result out.old }
    // Reading what is written returns the same packet.
    ensures read { key_packet_in (take result out.new) ≡ Some (key_packet_of packet.now) }
{
    let stamp = packet.stamp;
    let dest = packet.dest;
    let end = write_header(packet.kind, stamp, dest, out);
    write_at(out, end, packet.info)
}
