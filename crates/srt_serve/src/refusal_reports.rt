//! Refused conclusions, as they are reported to a watcher.

ghost use Rattle.std.specs.Prelude.{◌≡◌, ◌≤◌, [], Ok, None, Some, length};
ghost use Rattle.srt_lobby.specs.Names.{names_of};
ghost use Rattle.srt_lobby.specs.Causes.{cause_of};
ghost use Rattle.srt_packet.specs.View.{packet_of};
ghost use Rattle.srt_hs.specs.View.{handshake_of};
ghost use Rattle.srt_hs.specs.Reading.{handshake_in};
ghost use Rattle.srt_streamid.specs.Reading.{ask_in};
ghost use Rattle.srt_serve.specs.Refusals.{code_of, cut, refusal_in, name_by_ask, name_by_stream_id, name_by_handshake, name_by_packet, requested_name};

use arrayvec::ArrayVec;
use srt_hs::{HsRef, stream_id};
use srt_lobby::{Names, refusal_cause};
use srt_packet::{Kind, PacketRef, decode};
use srt_supervision::Refusal;
use srt_types::product_limits::MAX_NAME;
use srt_types::protocol_limits::MAX_STREAM_ID;
use srt_types::{Peer, read_word};

/// The code of a refusal, from a handshake type: one from 1000 on. The draft's other types are 0, 1 and such as are
/// negative, read as numbers with a sign (section 3.2.1).
fn code_of(kind: u32) -> Option<u32>
    ensures { result ≡ code_of kind }
{
    if 1000 <= kind && kind < 1 << 31 {
        Some(kind)
    } else {
        None
    }
}

/// The code of the refusal that this handshake packet is; `None` if it is none. Its handshake type is the sixth word
/// after the header (section 3.2.1).
pub fn refusal_in(packet: &[u8]) -> Option<u32>
    ensures { result ≡ refusal_in packet.now }
{
    if 40 <= packet.len() {
        code_of(read_word(packet, 36))
    } else {
        None
    }
}

/// A copy of a text of at most 64 bytes.
fn copy_of(text: &[u8]) -> ArrayVec<u8, MAX_NAME>
    requires { length text.now ≤ 64 }
    ensures { result.items ≡ text.now }
{
    let mut name = ArrayVec::new();
    let _ = name.try_extend_from_slice(text);
    name
}

/// A copy of a text, cut to 64 bytes.
fn cut(text: &[u8]) -> ArrayVec<u8, MAX_NAME>
    ensures { result.items ≡ cut text.now }
{
    if text.len() <= MAX_NAME {
        copy_of(text)
    } else {
        copy_of(&text[..MAX_NAME])
    }
}

fn name_in(bytes: &[u8]) -> ArrayVec<u8, MAX_NAME>
    ensures { result.items ≡ name_by_ask bytes.now (ask_in bytes.now) }
{
    match srt_streamid::read(bytes) {
        Ok(ask) => cut(&bytes[ask.start..ask.start + ask.len]),
        Err(_) => ArrayVec::new(),
    }
}

fn name_in_handshake(hs: &HsRef<'_>) -> ArrayVec<u8, MAX_NAME>
    ensures { result.items ≡ name_by_stream_id (handshake_of hs.now).blocks.stream_id }
{
    let mut text = [0; MAX_STREAM_ID];
    match stream_id(hs, &mut text) {
        Some(len) => name_in(&text[..len]),
        None => ArrayVec::new(),
    }
}

fn name_in_info(info: &[u8]) -> ArrayVec<u8, MAX_NAME>
    ensures { result.items ≡ name_by_handshake (handshake_in info.now) }
{
    match srt_hs::read(info) {
        Ok(hs) => name_in_handshake(&hs),
        Err(_) => ArrayVec::new(),
    }
}

fn name_in_packet(packet: PacketRef<'_>) -> ArrayVec<u8, MAX_NAME>
    ensures { result.items ≡ name_by_packet (Ok (packet_of packet.entry)) }
{
    match packet.kind {
        Kind::Handshake { info } => name_in_info(info),
        _ => ArrayVec::new(),
    }
}

/// Returns the name that the Stream ID of a conclusion requests, cut to 64 bytes. Empty if the datagram is none, or if its
/// Stream ID requests no name.
pub fn requested_name(datagram: &[u8]) -> ArrayVec<u8, MAX_NAME>
    ensures { result.items ≡ requested_name datagram.now }
{
    match decode(datagram) {
        Ok(packet) => name_in_packet(packet),
        Err(_) => ArrayVec::new(),
    }
}

/// Returns the report of a conclusion that the lobby, which has these names, refused with this code.
pub fn lobby_refusal(names: &Names, peer: Peer, code: u32, conclusion: &[u8]) -> Refusal
    ensures route { result.route ≡ None }
    ensures peer { result.peer ≡ peer }
    ensures code { result.code ≡ code }
    ensures name { result.name.items ≡ requested_name conclusion.now }
    ensures cause { result.cause ≡ cause_of (names_of names.now) (record { peer = peer; bytes = conclusion.now }) }
{
    Refusal {
        route: None,
        peer,
        code,
        name: requested_name(conclusion),
        cause: refusal_cause(names, peer, conclusion),
    }
}

/// Returns the report of a conclusion that the route with this index refused with this code.
pub fn route_refusal(route: usize, peer: Peer, code: u32) -> Refusal
    ensures route { result.route ≡ Some route }
    ensures peer { result.peer ≡ peer }
    ensures code { result.code ≡ code }
    ensures name { result.name.items ≡ [] }
    ensures cause { result.cause ≡ None }
{
    Refusal {
        route: Some(route),
        peer,
        code,
        name: ArrayVec::new(),
        cause: None,
    }
}
