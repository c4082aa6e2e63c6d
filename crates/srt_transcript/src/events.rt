//! The words of a tape's event.

ghost use Rattle.srt_replay.specs.EventRead.{IsSound};

use crate::addresses::put_peer;
use crate::packets::put_packet;
use crate::text::{Words, front};
use memchr::memchr;
use srt_config::RouteNumbers;
use srt_replay::{NewRoute, TapeEvent};
use srt_types::product_limits::MAX_TAPE_DATAGRAM;
use srt_types::{Mode, Peer};

/// The most bytes that are shown of a line that isn't an event.
const MAX_SHOWN: usize = 80;

/// Puts words, and the index of a route.
fn put_route(words: &mut Words, before: &[u8], route: usize) {
    words.put(before);
    words.put_number(route as u64);
}

/// Puts an arrival.
fn put_arrival(words: &mut Words, peer: Peer, moment: u64, datagram: &[u8]) {
    words.put_seconds(moment);
    words.put(b"  from ");
    put_peer(words, peer);
    words.put(b"  ");
    put_packet(words, datagram);
}

/// Puts a route's numbers.
fn put_numbers(words: &mut Words, numbers: RouteNumbers) {
    words.put(b", latency ");
    words.put_word(numbers.latency_ms);
    words.put(b" ms, buffer ");
    words.put_word(numbers.buffer);
    words.put(b", sessions ");
    words.put_word(numbers.sessions);
    words.put(b", inbox ");
    words.put_word(numbers.inbox);
    words.put(b", outbox ");
    words.put_word(numbers.outbox);
}

/// Puts the opening of a route.
fn put_opening(words: &mut Words, opening: NewRoute<'_>) {
    words.put(b"opening of route \"");
    words.put(opening.name.as_bytes());
    words.put(b"\": ");
    match opening.mode {
        Mode::Live => words.put(b"live"),
        Mode::Buffer => words.put(b"buffer"),
    }
    put_numbers(words, opening.numbers);
}

/// Puts an event; the datagram of an arrival is at the front of `datagram`.
pub(crate) fn put_event(words: &mut Words, event: TapeEvent<'_>, datagram: &[u8; MAX_TAPE_DATAGRAM])
    requires { IsSound 511 event }
{
    match event {
        TapeEvent::Arrival { peer, moment, len } => {
            put_arrival(words, peer, moment, &datagram[..len])
        }
        TapeEvent::Tick { route, moment } => {
            words.put_seconds(moment);
            put_route(words, b"  tick of route ", route);
        }
        TapeEvent::Turn { route } => put_route(words, b"turn of route ", route),
        TapeEvent::Send { route } => put_route(words, b"send of route ", route),
        TapeEvent::Opens(opening) => put_opening(words, opening),
        TapeEvent::Closes { route, moment } => {
            words.put_seconds(moment);
            put_route(words, b"  closing of route ", route);
        }
    }
}

/// The quotation mark around a line: an apostrophe, unless the line has one and no double quotation mark.
fn quote_of(line: &[u8]) -> u8 {
    if memchr(b'\'', line).is_some() && memchr(b'"', line).is_none() {
        return b'"';
    }
    b'\''
}

/// Puts a byte of a line in quotes: itself if it is a printable character of ASCII, with a backslash before a backslash and
/// before this quotation mark; else an escape.
fn put_quoted(words: &mut Words, byte: u8, quote: u8) {
    match byte {
        b'\t' => words.put(b"\\t"),
        b'\r' => words.put(b"\\r"),
        b' '..=b'~' => {
            if byte == quote || byte == b'\\' {
                words.put(b"\\");
            }
            words.put(&[byte]);
        }
        _ => {
            words.put(b"\\x");
            words.put_hex(&[byte]);
        }
    }
}

/// Puts a line that isn't an event: its first 80 bytes in quotes, its LF among them if it has one.
pub(crate) fn put_no_event(words: &mut Words, line: &[u8], has_lf: bool) {
    let shown = front(line, MAX_SHOWN);
    let quote = quote_of(shown);
    words.put(b"no event: ");
    words.put(&[quote]);
    for byte in shown {
        put_quoted(words, *byte, quote);
    }
    if has_lf & (line.len() < MAX_SHOWN) {
        words.put(b"\\n");
    }
    words.put(&[quote]);
}

/// Puts a line that isn't an event, since it is longer than 4096 bytes.
pub(crate) fn put_long_line(words: &mut Words) {
    words.put(b"no event: more than 4096 bytes");
}
