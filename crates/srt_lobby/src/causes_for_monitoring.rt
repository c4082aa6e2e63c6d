//! Why a conclusion is refused with 1002, for monitoring. `classify` calls nothing in this file.

ghost use Rattle.std.specs.Prelude.{◌≡◌, Ok};
ghost use Rattle.srt_types.specs.Access.{role_access_of};
ghost use Rattle.srt_types.specs.Items.{Datagram};
ghost use Rattle.srt_packet.specs.View.{packet_of};
ghost use Rattle.srt_packet.specs.Reading.{packet_in};
ghost use Rattle.srt_hs.specs.View.{handshake_of};
ghost use Rattle.srt_hs.specs.Reading.{handshake_in};
ghost use Rattle.srt_streamid.specs.Reading.{ask_in, key_of};
ghost use Rattle.srt_lobby.specs.Names.{names_of};
ghost use Rattle.srt_lobby.specs.Causes.{cause_in_role, cause_by_index, cause_by_ask, cause_by_stream_id, cause_of_conclusion};
ghost use Rattle.srt_lobby.specs.Causes.{cause_by_handshake, cause_by_packet, cause_of};

use crate::Names;
use crate::refusals::{reason, requests_secured};
use srt_hs::{HsRef, stream_id};
use srt_packet::{Kind, PacketRef, decode};
use srt_types::protocol_limits::MAX_STREAM_ID;
use srt_types::{NotAdmitted, Peer, Role, RoleAccess};

/// Returns why a caller with this Stream ID isn't admitted in this role.
fn cause_in_role(access: &RoleAccess, role: Role, peer: Peer, bytes: &[u8]) -> Option<NotAdmitted>
    ensures { result ≡ cause_in_role (role_access_of access.now) role peer (key_of bytes.now) }
{
    if !access.lists(peer) {
        return Some(NotAdmitted::Address(role));
    }
    if access.is_right_key(srt_streamid::key(bytes)) {
        None
    } else {
        Some(NotAdmitted::Key(role))
    }
}

/// Returns why the route with this index, if one was found, doesn't admit a caller with this Stream ID in this role.
fn cause_by_index(
    names: &Names,
    peer: Peer,
    role: Role,
    bytes: &[u8],
    found: Option<usize>,
) -> Option<NotAdmitted>
    ensures { result ≡ cause_by_index (names_of names.now) peer role (key_of bytes.now) found }
{
    let Some(r) = found else {
        return Some(NotAdmitted::UnknownName);
    };
    match names.routes.get(r) {
        Some(route) => cause_in_role(route.access.in_role(role), role, peer, bytes),
        None => Some(NotAdmitted::UnknownName),
    }
}

fn cause_by_text(names: &Names, peer: Peer, bytes: &[u8]) -> Option<NotAdmitted>
    ensures { result ≡ cause_by_ask (names_of names.now) peer bytes.now (ask_in bytes.now) }
{
    match srt_streamid::read(bytes) {
        Ok(ask) => {
            let found = names.find(&bytes[ask.start..ask.start + ask.len]);
            cause_by_index(names, peer, ask.role, bytes, found)
        }
        Err(_) => Some(NotAdmitted::NoName),
    }
}

fn cause_by_stream_id(names: &Names, peer: Peer, hs: &HsRef<'_>) -> Option<NotAdmitted>
    ensures { result ≡ cause_by_stream_id (names_of names.now) peer (handshake_of hs.now).blocks.stream_id }
{
    let mut text = [0; MAX_STREAM_ID];
    match stream_id(hs, &mut text) {
        Some(len) => cause_by_text(names, peer, &text[..len]),
        None => Some(NotAdmitted::NoName),
    }
}

#[tactic(auto, unfolding(crate::specs::Causes::cause_of_conclusion))]
fn cause_of_conclusion(names: &Names, peer: Peer, hs: &HsRef<'_>) -> Option<NotAdmitted>
    ensures { result ≡ cause_of_conclusion (names_of names.now) peer (handshake_of hs.now) }
{
    match reason(hs, requests_secured(names, hs)) {
        Some(_) => None,
        None => cause_by_stream_id(names, peer, hs),
    }
}

fn cause_by_info(names: &Names, peer: Peer, info: &[u8]) -> Option<NotAdmitted>
    ensures { result ≡ cause_by_handshake (names_of names.now) peer (handshake_in info.now) }
{
    match srt_hs::read(info) {
        Ok(hs) => cause_of_conclusion(names, peer, &hs),
        Err(_) => None,
    }
}

fn cause_by_packet(names: &Names, peer: Peer, packet: PacketRef<'_>) -> Option<NotAdmitted>
    ensures { result ≡ cause_by_packet (names_of names.now) peer (Ok (packet_of packet.entry)) }
{
    match packet.kind {
        Kind::Handshake { info } => cause_by_info(names, peer, info),
        _ => None,
    }
}

/// Returns why the conclusion in this datagram from `peer` is refused with 1002 (SRT_REJ_PEER); `None` if it is refused
/// for another reason or not at all, and if the datagram has no handshake. Linear in the datagram's length and in the
/// networks of one list. Doesn't allocate.
#[tactic(auto, unfolding(crate::specs::Causes::cause_of))]
pub fn refusal_cause(names: &Names, peer: Peer, datagram: &[u8]) -> Option<NotAdmitted>
    ensures { result ≡ cause_of (names_of names.now) (record { peer = peer; bytes = datagram.now }) }
{
    match decode(datagram) {
        Ok(packet) => cause_by_packet(names, peer, packet),
        Err(_) => None,
    }
}
