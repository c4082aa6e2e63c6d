//! The events of a tape's lines (docs/PROTOCOL.md, "Tapes").

ghost use Rattle.std.specs.Prelude.{◌≡◌, ◌≢◌, ℕ, List, ◌∷◌, [], ◌≤◌, ◌<◌, ◌^◌, length, option_map, IfSome};
ghost use Rattle.srt_replay.specs.Tape.{fields_of};
ghost use Rattle.srt_replay.specs.inside.Pieces.{fields_behind, FourOf};
ghost use Rattle.srt_replay.specs.inside.Parts.{OneOf, TwoOf};
ghost use Rattle.srt_replay.specs.Events.{event_of, event_in, text_in, mode_in, numbers_in, arrival_in, tick_in, turn_in, send_in, opening_in, closing_in};
ghost use Rattle.srt_replay.specs.EventRead.{event_read, IsSound};
ghost use Rattle.srt_config.specs.RouteNumbers.{numbers_of};

use crate::fields::split_field;
use crate::hexadecimal::{read_address, read_bytes};
use srt_config::{RouteNumbers, read_number};
use srt_types::product_limits::{MAX_TAPE_DATAGRAM, MAX_TAPE_LINE};
use srt_types::{MOMENT_END, Mode, Peer};

/// A route that is to be opened: the entry of its line, with any name and any numbers.
#[derive(Clone, Copy)]
pub struct NewRoute<'a> {
    /// The name.
    pub name: &'a str,
    /// The mode.
    pub mode: Mode,
    /// The numbers.
    pub numbers: RouteNumbers,
}

/// An event of a tape. The bytes of an arrival's datagram are at the front of the buffer that was passed to [`read_event`].
#[derive(Clone, Copy)]
pub enum TapeEvent<'a> {
    /// `A`: a datagram arrives.
    Arrival {
        /// The sender's address.
        peer: Peer,
        /// The moment in microseconds, below 2^62.
        moment: u64,
        /// The length of the datagram in bytes, at most 2048.
        len: usize,
    },
    /// `T`: a tick for a route, at a moment in microseconds, below 2^62.
    Tick {
        /// The route's index.
        route: usize,
        /// The moment.
        moment: u64,
    },
    /// `U`: a route moves a reply or applies an item.
    Turn {
        /// The route's index.
        route: usize,
    },
    /// `S`: a route's oldest reply in the outbox is sent.
    Send {
        /// The route's index.
        route: usize,
    },
    /// `O`: a route is opened.
    Opens(NewRoute<'a>),
    /// `C`: a route is closed, at a moment in microseconds, below 2^62.
    Closes {
        /// The route's index.
        route: usize,
        /// The moment.
        moment: u64,
    },
}

/// Two fields of a line.
#[derive(Clone, Copy)]
struct Two<'a> {
    first: &'a [u8],
    second: &'a [u8],
}

/// The only field of a text; None if there are more.
fn one_field(text: &[u8]) -> Option<&[u8]>
    ensures { OneOf result (fields_of text.now) }
{
    let only = split_field(text);
    match only.rest {
        Some(_) => None,
        None => Some(only.field),
    }
}

/// The two fields of a text; None if there aren't two.
fn two_fields(text: &[u8]) -> Option<Two<'_>>
    ensures { TwoOf result (fields_of text.now) }
{
    let first = split_field(text);
    let second = split_field(first.rest?);
    match second.rest {
        Some(_) => None,
        None => Some(Two {
            first: first.field,
            second: second.field,
        }),
    }
}

/// Four fields of a line.
#[derive(Clone, Copy)]
struct Four<'a> {
    first: &'a [u8],
    second: &'a [u8],
    third: &'a [u8],
    fourth: &'a [u8],
}

/// The four fields of a text; None if there aren't four.
fn four_fields(text: &[u8]) -> Option<Four<'_>>
    ensures fields { FourOf result (fields_of text.now) }
    ensures within { IfSome result (λ four. length four.fourth.now ≤ length text.now) }
{
    let first = split_field(text);
    let second = split_field(first.rest?);
    let third = split_field(second.rest?);
    let fourth = split_field(third.rest?);
    match fourth.rest {
        Some(_) => None,
        None => Some(Four {
            first: first.field,
            second: second.field,
            third: third.field,
            fourth: fourth.field,
        }),
    }
}

/// Reads an arrival from the fields after the line's letter: moment, address, port and bytes. The datagram is written
/// to the front of the buffer.
fn read_arrival<'a>(text: &[u8], buffer: &mut [u8; MAX_TAPE_DATAGRAM]) -> Option<TapeEvent<'a>>
    requires { length text.now ≤ 4096 }
    ensures value { option_map (event_read buffer.new) result ≡ arrival_in (fields_of text.now) }
    ensures sound { IfSome result (IsSound 0) }
{
    let fields = four_fields(text)?;
    let moment = read_number(fields.first, MOMENT_END)?;
    let ip = read_address(fields.second)?;
    let port = read_number(fields.third, 1 << 16)?;
    let len = read_bytes(fields.fourth, buffer)?;
    let peer = Peer {
        ip,
        port: port as u16,
    };
    Some(TapeEvent::Arrival { peer, moment, len })
}

fn read_tick<'a>(text: &[u8], routes: usize) -> Option<TapeEvent<'a>>
    ensures value { option_map (event_read []) result ≡ tick_in routes (fields_of text.now) }
    ensures sound { IfSome result (IsSound routes) }
{
    let fields = two_fields(text)?;
    let route = read_number(fields.first, routes as u64)?;
    let moment = read_number(fields.second, MOMENT_END)?;
    Some(TapeEvent::Tick {
        route: route as usize,
        moment,
    })
}

fn read_turn<'a>(text: &[u8], routes: usize) -> Option<TapeEvent<'a>>
    ensures value { option_map (event_read []) result ≡ turn_in routes (fields_of text.now) }
    ensures sound { IfSome result (IsSound routes) }
{
    let route = read_number(one_field(text)?, routes as u64)?;
    Some(TapeEvent::Turn {
        route: route as usize,
    })
}

fn read_send<'a>(text: &[u8], routes: usize) -> Option<TapeEvent<'a>>
    ensures value { option_map (event_read []) result ≡ send_in routes (fields_of text.now) }
    ensures sound { IfSome result (IsSound routes) }
{
    let route = read_number(one_field(text)?, routes as u64)?;
    Some(TapeEvent::Send {
        route: route as usize,
    })
}

/// A name: any text in UTF-8.
fn read_text(text: &[u8]) -> Option<&str>
    ensures { option_map (λ t. t.now) result ≡ text_in text.now }
{
    match str::from_utf8(text) {
        Ok(name) => Some(name),
        Err(_) => None,
    }
}

fn read_mode(text: &[u8]) -> Option<Mode>
    ensures { result ≡ mode_in text.now }
{
    if text == b"live".as_slice() {
        return Some(Mode::Live);
    }
    if text == b"buffer".as_slice() {
        return Some(Mode::Buffer);
    }
    None
}

/// Reads a route's numbers: latency, buffer, sessions, inbox and outbox.
#[tactic(auto, unfolding(crate::specs::Events::numbers_in))]
fn read_numbers(text: &[u8]) -> Option<RouteNumbers>
    ensures { option_map numbers_of result ≡ numbers_in (fields_of text.now) }
{
    let first = split_field(text);
    let others = four_fields(first.rest?)?;
    let latency_ms = read_number(first.field, 1 << 32)?;
    let buffer = read_number(others.first, 1 << 32)?;
    let sessions = read_number(others.second, 1 << 32)?;
    let inbox = read_number(others.third, 1 << 32)?;
    let outbox = read_number(others.fourth, 1 << 32)?;
    Some(RouteNumbers {
        latency_ms: latency_ms as u32,
        buffer: buffer as u32,
        sessions: sessions as u32,
        inbox: inbox as u32,
        outbox: outbox as u32,
    })
}

#[tactic(auto, unfolding(crate::specs::Events::opening_in, crate::specs::Events::numbers_in))]
fn read_opening(text: &[u8]) -> Option<TapeEvent<'_>>
    ensures value { (buffer : List ℕ) → option_map (event_read buffer) result ≡ opening_in (fields_of text.now) }
    ensures sound { IfSome result (IsSound 0) }
{
    let name = split_field(text);
    let mode = split_field(name.rest?);
    let name = read_text(name.field)?;
    let live_or_buffer = read_mode(mode.field)?;
    let numbers = read_numbers(mode.rest?)?;
    Some(TapeEvent::Opens(NewRoute {
        name,
        mode: live_or_buffer,
        numbers,
    }))
}

fn read_closing<'a>(text: &[u8], routes: usize) -> Option<TapeEvent<'a>>
    ensures value { option_map (event_read []) result ≡ closing_in routes (fields_of text.now) }
    ensures sound { IfSome result (IsSound routes) }
{
    let two = two_fields(text)?;
    let route = read_number(two.first, routes as u64)?;
    let moment = read_number(two.second, MOMENT_END)?;
    Some(TapeEvent::Closes {
        route: route as usize,
        moment,
    })
}

/// Reads the event of a letter and of the fields behind it; None if they aren't one. A datagram is written to the front of
/// the buffer.
#[tactic(auto, unfolding(crate::specs::Events::event_in))]
fn read_kind<'a>(
    letter: &[u8],
    text: &'a [u8],
    routes: usize,
    buffer: &mut [u8; MAX_TAPE_DATAGRAM],
) -> Option<TapeEvent<'a>>
    requires { length text.now ≤ 4096 }
    ensures value { option_map (event_read buffer.new) result ≡ event_in routes (letter.now ∷ fields_of text.now) }
    ensures sound { IfSome result (IsSound routes) }
{
    match letter {
        [b'A'] => read_arrival(text, buffer),
        [b'T'] => read_tick(text, routes),
        [b'U'] => read_turn(text, routes),
        [b'S'] => read_send(text, routes),
        [b'O'] => read_opening(text),
        [b'C'] => read_closing(text, routes),
        _ => None,
    }
}

/// Reads the event of a line; None if it isn't one. A datagram is written to the front of the buffer.
#[tactic(auto, using(crate::proofs::Letters::letter_alone))]
fn read_fields<'a>(
    line: &'a [u8],
    routes: usize,
    buffer: &mut [u8; MAX_TAPE_DATAGRAM],
) -> Option<TapeEvent<'a>>
    requires { length line.now ≤ 4096 }
    ensures value { option_map (event_read buffer.new) result ≡ event_in routes (fields_of line.now) }
    ensures sound { IfSome result (IsSound routes) }
{
    let letter = split_field(line);
    match letter.rest {
        Some(rest) => read_kind(letter.field, rest, routes, buffer),
        None => None,
    }
}

/// Reads the event of a line, for a gateway with `routes` routes; None if it isn't one or is longer than 4096 bytes. A
/// datagram is written to the front of the buffer, whose bytes mean nothing after None.
#[tactic(auto, unfolding(crate::specs::Events::event_of))]
pub fn read_event<'a>(
    line: &'a [u8],
    routes: usize,
    buffer: &mut [u8; MAX_TAPE_DATAGRAM],
) -> Option<TapeEvent<'a>>
    ensures value { option_map (event_read buffer.new) result ≡ event_of routes line.now }
    ensures sound { IfSome result (IsSound routes) }
{
    if line.len() > MAX_TAPE_LINE {
        return None;
    }
    read_fields(line, routes, buffer)
}
