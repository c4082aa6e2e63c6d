//! Each refusal with 1011 (SRT_REJ_UNSECURE; draft-sharabayko-srt-01, section 4.3, table 7): a conclusion with a KMREQ for a
//! role without a passphrase, and one without right keys for a role that has a passphrase (a secured role).

ghost use Rattle.std.specs.Prelude.{◌≡◌, ◌&&◌, not, slice_get};
ghost use Rattle.srt_types.specs.Access.{access_of};
ghost use Rattle.srt_hs.specs.View.{handshake_of};
ghost use Rattle.srt_hs.specs.KeyRequest.{key_request_in};
ghost use Rattle.srt_lobby.specs.Names.{names_of};
ghost use Rattle.srt_lobby.specs.Keys.{has_keys_in, has_keys};
ghost use Rattle.srt_lobby.specs.Lobby.{if_keyed};

use crate::names::RequestedRole;
use crate::refusals::refused;
use crate::{Class, Names};
use srt_hs::{HsRef, KeyRequest, RefusalCode, key_request, read_key_message};
use srt_types::{Access, Role};

/// Whether a conclusion has a KMREQ though its role isn't secured: the role has no passphrase, or there is no such role.
pub(crate) fn has_unexpected_keys(hs: &HsRef<'_>, secured: bool) -> bool
    ensures { result ≡ (not secured && (handshake_of hs.now).blocks.has_kmreq) }
{
    !secured && hs.blocks.has_kmreq
}

/// Whether the KMREQ blocks of a conclusion are right for a role: for a secured one exactly one, which has keys of the
/// required length. `info` is the handshake, the bytes after the packet's header.
pub(crate) fn has_keys_in(access: &Access, role: Role, info: &[u8]) -> bool
    ensures { result ≡ has_keys_in (access_of access.now) role (key_request_in info.now) }
{
    if !access.in_role(role).is_secured() {
        return true;
    }
    match key_request(info) {
        KeyRequest::Missing => false,
        KeyRequest::One(contents) => match read_key_message(contents) {
            Ok(message) => access.is_right_length(message.key_length),
            Err(_) => false,
        },
        KeyRequest::Several => false,
    }
}

/// Returns the class of a conclusion that a route admits in this role: for the route; refused with 1011 if the role is
/// secured, and the conclusion hasn't exactly one KMREQ block with keys of the required length. `info` is the handshake.
pub(crate) fn if_keyed(
    names: &Names,
    info: &[u8],
    hs: &HsRef<'_>,
    requested: RequestedRole,
) -> Class
    ensures { result ≡ if_keyed (has_keys requested.role (key_request_in info.now) (slice_get (names_of names.now) requested.route))
        (handshake_of hs.now) requested.route }
{
    if names.has_keys(requested, info) {
        Class::Route(requested.route)
    } else {
        refused(hs, RefusalCode::Unsecure)
    }
}
