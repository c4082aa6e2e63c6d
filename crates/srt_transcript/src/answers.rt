//! The words of a line of a replay's output.

use crate::addresses::put_peer;
use crate::packets::put_packet;
use crate::text::{Words, front};
use srt_config::{parted, read_number};
use srt_replay::{read_address, read_bytes};
use srt_types::Peer;
use srt_types::product_limits::{MAX_TAPE_DATAGRAM, MAX_TAPE_LINE};

/// The most bytes that are shown of a line that no replay prints.
const MAX_SHOWN: usize = 80;

/// Puts the cause of a drop, given by its number.
fn put_cause(words: &mut Words, number: &[u8]) {
    match number {
        b"1" => words.put(b" (no packet)"),
        b"2" => words.put(b" (no route has this destination)"),
        b"3" => words.put(b" (not a handshake)"),
        b"4" => words.put(b" (a handshake with a fault)"),
        b"5" => words.put(b" (neither INDUCTION nor CONCLUSION)"),
        b"6" => words.put(b" (a wrong cookie)"),
        b"7" => words.put(b" (an address outside the route's lists)"),
        _ => words.put(b" (no such cause)"),
    }
}

/// Reads the bytes of hexadecimal digits; None if they aren't pairs of digits. They are at the front of `datagram`.
fn bytes_of<'a>(digits: &[u8], datagram: &'a mut [u8; MAX_TAPE_DATAGRAM]) -> Option<&'a [u8]> {
    if digits.len() > MAX_TAPE_LINE {
        return None;
    }
    let len = read_bytes(digits, datagram)?;
    Some(&datagram[..len])
}

/// Puts the datagram of an answer. Returns whether the digits are bytes.
fn put_answer(words: &mut Words, digits: &[u8], datagram: &mut [u8; MAX_TAPE_DATAGRAM]) -> bool {
    match bytes_of(digits, datagram) {
        Some(bytes) => {
            words.put(b"answer  ");
            put_packet(words, bytes);
            true
        }
        None => false,
    }
}

/// Reads the address and the port of a datagram that was sent.
fn peer_of(ip: &[u8], port: &[u8]) -> Option<Peer> {
    let ip = read_address(ip)?;
    let port = read_number(port, 1 << 16)?;
    Some(Peer {
        ip,
        port: port as u16,
    })
}

/// Puts a datagram that was sent. Returns whether its address and its bytes are right.
fn put_datagram(
    words: &mut Words,
    peer: Peer,
    digits: &[u8],
    datagram: &mut [u8; MAX_TAPE_DATAGRAM],
) -> bool {
    match bytes_of(digits, datagram) {
        Some(bytes) => {
            words.put(b"sent to ");
            put_peer(words, peer);
            words.put(b"  ");
            put_packet(words, bytes);
            true
        }
        None => false,
    }
}

/// Puts a datagram that was sent, given by its address, port and bytes. Returns whether these have their form.
fn put_sent(words: &mut Words, fields: &[u8], datagram: &mut [u8; MAX_TAPE_DATAGRAM]) -> bool {
    let Some(ip) = parted(b' ', fields) else {
        return false;
    };
    let Some(port) = parted(b' ', ip.behind) else {
        return false;
    };
    match peer_of(ip.before, port.before) {
        Some(peer) => put_datagram(words, peer, port.behind, datagram),
        None => false,
    }
}

/// Puts a drop with its cause.
fn put_dropped(words: &mut Words, line: &[u8], number: &[u8]) -> bool {
    words.put(line);
    put_cause(words, number);
    true
}

/// Puts a line with more than one word. Returns whether its fields have their form.
fn put_fields(words: &mut Words, line: &[u8], datagram: &mut [u8; MAX_TAPE_DATAGRAM]) -> bool {
    let Some(parts) = parted(b' ', line) else {
        words.put(line);
        return true;
    };
    match parts.before {
        b"answer" => put_answer(words, parts.behind, datagram),
        b"sent" => put_sent(words, parts.behind, datagram),
        b"dropped" => put_dropped(words, line, parts.behind),
        _ => {
            words.put(line);
            true
        }
    }
}

/// Puts a line of a replay's output. `datagram` is a buffer for the bytes of its datagram.
pub(crate) fn put_output(words: &mut Words, line: &[u8], datagram: &mut [u8; MAX_TAPE_DATAGRAM]) {
    if !put_fields(words, line, datagram) {
        words.put(front(line, MAX_SHOWN));
        words.put(b" (no line of a replay)");
    }
}
