//! A conclusion with a valid cookie: every refusal of the lobby in its order, 1008, 1004, 1011, 1014, 1015 and 1002
//! (draft-sharabayko-srt-01, section 4.3, table 7), or its route. `refusal_codes.rt` of `srt_hs` has the order of all refusals.

ghost use Rattle.std.specs.Prelude.{◌≡◌, slice_get};
ghost use Rattle.srt_hs.specs.View.{handshake_of};
ghost use Rattle.srt_hs.specs.KeyRequest.{key_request_in};
ghost use Rattle.srt_streamid.specs.Reading.{ask_in, key_of};
ghost use Rattle.srt_lobby.specs.Names.{names_of};
ghost use Rattle.srt_lobby.specs.Lobby.{refused as is_refused, reason_of, role_named, is_secured_role, of_role, of_request, of_conclusion};
ghost use Rattle.srt_lobby.specs.Causes.{requests_secured};

use crate::encryption_refusals::{has_unexpected_keys, if_keyed};
use crate::lobby::answered;
use crate::names::RequestedRole;
use crate::{Class, Names};
use srt_hs::{AnswerKind, HsRef, RefusalCode, stream_id};
use srt_types::Peer;
use srt_types::protocol_limits::MAX_STREAM_ID;

pub(crate) fn refused(hs: &HsRef<'_>, code: RefusalCode) -> Class
    ensures { result ≡ is_refused (handshake_of hs.now) code }
{
    answered(hs, AnswerKind::Refusal(code))
}

/// Returns the first reason to refuse a conclusion that depends on nothing of the requested role but whether it is secured
/// (section 4.3, table 7). In order: 1008 (SRT_REJ_VERSION) if the version isn't 5; 1004 (SRT_REJ_ROGUE) if the initial
/// sequence number isn't below 2^31 or there is no HSREQ; 1011 (SRT_REJ_UNSECURE) for a KMREQ, unless the role is secured;
/// 1014 (SRT_REJ_FILTER) for a packet filter; 1015 (SRT_REJ_GROUP) for a connection group.
#[tactic(auto, unfolding(crate::specs::Lobby::reason_of))]
pub(crate) fn reason(hs: &HsRef<'_>, secured: bool) -> Option<RefusalCode>
    ensures { result ≡ reason_of secured (handshake_of hs.now) }
{
    if hs.version != 5 {
        Some(RefusalCode::Version)
    } else if hs.initial >= 1 << 31 || hs.blocks.hsreq.is_none() {
        Some(RefusalCode::Rogue)
    } else if has_unexpected_keys(hs, secured) {
        Some(RefusalCode::Unsecure)
    } else if hs.blocks.has_filter {
        Some(RefusalCode::Filter)
    } else if hs.blocks.has_group {
        Some(RefusalCode::Group)
    } else {
        None
    }
}

/// Returns the role of a visible route that a Stream ID requests (appendix B); None if it has a fault, or names no visible
/// route.
fn role_named(names: &Names, bytes: &[u8]) -> Option<RequestedRole>
    ensures { result ≡ role_named (names_of names.now) bytes.now (ask_in bytes.now) }
{
    match srt_streamid::read(bytes) {
        Ok(ask) => {
            let route = names.find(&bytes[ask.start..ask.start + ask.len])?;
            Some(RequestedRole {
                role: ask.role,
                route,
            })
        }
        Err(_) => None,
    }
}

/// Whether there is a requested role, and it is secured.
fn is_secured_role(names: &Names, requested: Option<RequestedRole>) -> bool
    ensures { result ≡ is_secured_role (names_of names.now) requested }
{
    match requested {
        Some(requested) => names.is_secured(requested),
        None => false,
    }
}

/// Whether the Stream ID of a conclusion requests a secured role of a visible route.
pub(crate) fn requests_secured(names: &Names, hs: &HsRef<'_>) -> bool
    ensures { result ≡ requests_secured (names_of names.now) (handshake_of hs.now).blocks.stream_id }
{
    let mut text = [0; MAX_STREAM_ID];
    match stream_id(hs, &mut text) {
        Some(len) => is_secured_role(names, role_named(names, &text[..len])),
        None => false,
    }
}

/// Returns the class of a conclusion for this role, with the Stream ID `bytes`: for the route; refused with 1002
/// (SRT_REJ_PEER) if it doesn't admit the caller, or with 1011 (SRT_REJ_UNSECURE) if the role is secured, and the
/// conclusion hasn't exactly one KMREQ block with keys of the required length. `info` is the handshake.
fn of_role(
    names: &Names,
    peer: Peer,
    info: &[u8],
    hs: &HsRef<'_>,
    bytes: &[u8],
    requested: RequestedRole,
) -> Class
    ensures { result ≡ of_role peer (key_request_in info.now) (handshake_of hs.now) (key_of bytes.now) requested
        (slice_get (names_of names.now) requested.route) }
{
    if !names.admits(requested, peer, bytes) {
        return refused(hs, RefusalCode::Peer);
    }
    if_keyed(names, info, hs, requested)
}

/// Returns the class of a conclusion with the Stream ID `bytes`: refused for a reason; refused with 1002 if they request no
/// role of a visible route; else that for this role. `info` is the handshake.
fn of_stream_id(names: &Names, peer: Peer, info: &[u8], hs: &HsRef<'_>, bytes: &[u8]) -> Class
    ensures { result ≡ of_request (names_of names.now) peer (key_request_in info.now) (handshake_of hs.now) (key_of bytes.now)
        (role_named (names_of names.now) bytes.now (ask_in bytes.now)) }
{
    let requested = role_named(names, bytes);
    if let Some(code) = reason(hs, is_secured_role(names, requested)) {
        return refused(hs, code);
    }
    match requested {
        Some(requested) => of_role(names, peer, info, hs, bytes, requested),
        None => refused(hs, RefusalCode::Peer),
    }
}

/// Returns the class of a conclusion with a valid cookie: that for its Stream ID. Without one it is refused for a reason,
/// or with 1002. `info` is the handshake.
#[tactic(auto, unfolding(crate::specs::Lobby::of_conclusion))]
pub(crate) fn of_conclusion(names: &Names, peer: Peer, info: &[u8], hs: &HsRef<'_>) -> Class
    ensures { result ≡ of_conclusion (names_of names.now) peer (key_request_in info.now) (handshake_of hs.now) }
{
    let mut text = [0; MAX_STREAM_ID];
    match stream_id(hs, &mut text) {
        Some(len) => of_stream_id(names, peer, info, hs, &text[..len]),
        None => match reason(hs, false) {
            Some(code) => refused(hs, code),
            None => refused(hs, RefusalCode::Peer),
        },
    }
}
