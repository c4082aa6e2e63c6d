//! The classification of a datagram, test by test (section 4.3.1; the order is our choice). A conclusion with a valid
//! cookie is judged in `refusals.rt`.

ghost use Rattle.std.specs.Prelude.{◌≡◌, ℕ, ◌^◌, ◌<◌, ◌≤◌, [], length, slice_get};
ghost use Rattle.srt_types.specs.Items.{Datagram};
ghost use Rattle.srt_packet.specs.View.{packet_of};
ghost use Rattle.srt_packet.specs.Reading.{packet_in};
ghost use Rattle.srt_hs.specs.Text.{blocks_text};
ghost use Rattle.srt_hs.specs.View.{handshake_of};
ghost use Rattle.srt_hs.specs.KeyRequest.{key_request_in};
ghost use Rattle.srt_hs.specs.Reading.{handshake_in};
ghost use Rattle.srt_streamid.specs.Reading.{ask_in, key_of};
ghost use Rattle.srt_cookie.specs.Cookie.{secret_bytes};
ghost use Rattle.srt_lobby.specs.Names.{names_of};
ghost use Rattle.srt_lobby.specs.Lobby.{answer_bytes, answered as is_answered, refused as is_refused, reason_of, role_named, is_secured_role};
ghost use Rattle.srt_lobby.specs.Lobby.{of_role, of_request};
ghost use Rattle.srt_lobby.specs.Causes.{requests_secured};
ghost use Rattle.srt_lobby.specs.Lobby.{by_kind, of_conclusion, of_handshake, of_body, to_session, of_packet, class_of};

use crate::access_lists::if_known;
use crate::refusals::of_conclusion;
use crate::{Cause, Class, LOBBY_ANSWER, Names};
use srt_cookie::{Secret, cookie, minute_of, right};
use srt_hs::{AnswerKind, HsAnswer, HsKind, HsRef, RefusalCode, stream_id, write};
use srt_packet::{Kind, PacketRef, decode};
use srt_types::protocol_limits::MAX_ANSWER;
use srt_types::{Peer, write_at};

/// Returns the 64 bytes of a handshake packet with this answer, to the caller's socket `id`, with timestamp 0.
fn answer(id: u32, initial: u32, what: AnswerKind) -> [u8; LOBBY_ANSWER]
    requires { blocks_text what ≡ [] }
    ensures { result ≡ answer_bytes id (record { initial = initial; what = what }) }
{
    let mut text = [0; MAX_ANSWER];
    let len = write(&HsAnswer { initial, what }, &mut text);
    let mut out = [0; LOBBY_ANSWER];
    let end = write_at(&mut out, 0, &[0x80, 0, 0, 0, 0, 0, 0, 0, 0, 0, 0, 0]);
    let end = write_at(&mut out, end, &id.to_be_bytes());
    write_at(&mut out, end, &text[..len]);
    out
}

#[tactic(auto, unfolding(crate::specs::Lobby::answered))]
pub(crate) fn answered(hs: &HsRef<'_>, what: AnswerKind) -> Class
    requires { blocks_text what ≡ [] }
    ensures { result ≡ is_answered (handshake_of hs.now) what }
{
    Class::Answer(answer(hs.id, hs.initial, what))
}

/// Returns the class of a handshake with destination 0. `info` is the handshake too.
fn of_handshake(
    secret: &Secret,
    names: &Names,
    peer: Peer,
    moment: u64,
    info: &[u8],
    hs: &HsRef<'_>,
) -> Class
    ensures { result ≡ by_kind (secret_bytes secret.now) (names_of names.now) peer moment (key_request_in info.now) (handshake_of hs.now) hs.now.kind }
{
    match hs.kind {
        HsKind::Induction => {
            let cookie = cookie(secret, peer, minute_of(moment));
            answered(hs, AnswerKind::Induction(cookie))
        }
        HsKind::Conclusion => {
            if right(secret, peer, moment, hs.cookie) {
                of_conclusion(names, peer, info, hs)
            } else {
                Class::Dropped(Cause::WrongCookie)
            }
        }
        _ => Class::Dropped(Cause::WrongKind),
    }
}

/// Returns the class of a handshake packet with destination 0, from the bytes after its header.
#[inline(never)]
fn of_info(secret: &Secret, names: &Names, peer: Peer, moment: u64, info: &[u8]) -> Class
    ensures { result ≡ of_handshake (secret_bytes secret.now) (names_of names.now) peer moment (key_request_in info.now) (handshake_in info.now) }
{
    match srt_hs::read(info) {
        Ok(hs) => of_handshake(secret, names, peer, moment, info, &hs),
        Err(_) => Class::Dropped(Cause::Handshake),
    }
}

/// Returns the class of a packet to this socket ID, which isn't 0: its bits from 20 up are the route's index + 1 (our
/// choice).
#[inline(always)]
fn to_session(names: &Names, peer: Peer, dest: u32) -> Class
    ensures { result ≡ to_session (names_of names.now) peer dest }
{
    let place = (dest >> 20) as usize;
    if 0 < place && names.shows(place - 1) {
        if_known(names, peer, place - 1)
    } else {
        Class::Dropped(Cause::UnknownId)
    }
}

#[inline(always)]
fn of_packet(
    secret: &Secret,
    names: &Names,
    peer: Peer,
    moment: u64,
    packet: PacketRef<'_>,
) -> Class
    ensures { result ≡ of_packet (secret_bytes secret.now) (names_of names.now) peer moment (Ok (packet_of packet.entry)) }
{
    if packet.dest != 0 {
        return to_session(names, peer, packet.dest);
    }
    match packet.kind {
        Kind::Handshake { info } => of_info(secret, names, peer, moment, info),
        _ => Class::Dropped(Cause::NotHandshake),
    }
}

/// Classifies a datagram that arrived from `peer` at `moment`, in microseconds. Linear in its length and in the
/// networks of its route; a name costs one hash lookup, for any number of routes. Doesn't allocate and changes nothing;
/// the result depends only on the arguments.
#[tactic(auto, unfolding(crate::specs::Lobby::class_of))]
#[inline(always)]
pub fn classify(secret: &Secret, names: &Names, peer: Peer, bytes: &[u8], moment: u64) -> Class
    requires { moment < 2 ^ 62 }
    ensures class { result ≡ class_of (secret_bytes secret.now) (names_of names.now) (record { peer = peer; bytes = bytes.now }) moment }
    // A datagram for a route has a complete header.
    ensures header { (r : ℕ) → result ≡ Class.Route r → 16 ≤ length bytes.now }
{
    match decode(bytes) {
        Ok(packet) => of_packet(secret, names, peer, moment, packet),
        Err(_) => Class::Dropped(Cause::Packet),
    }
}
