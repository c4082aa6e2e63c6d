//! Who is admitted (our choice). A conclusion is refused unless the list of the requested role contains the sender's address,
//! and its Stream ID has the role's key. A packet to a session is for its route only if one of the route's two lists contains
//! the sender's address.

ghost use Rattle.std.specs.Prelude.{◌≡◌};
ghost use Rattle.srt_types.specs.Access.{role_access_of, admits};
ghost use Rattle.srt_streamid.specs.Reading.{key_of};
ghost use Rattle.srt_lobby.specs.Names.{names_of, knows_caller_at};
ghost use Rattle.srt_lobby.specs.Lobby.{if_known};

use crate::{Cause, Class, Names};
use srt_types::{Peer, RoleAccess};

/// Whether a caller with this Stream ID is admitted: the list is checked first, then the key.
pub(crate) fn is_admitted(access: &RoleAccess, peer: Peer, bytes: &[u8]) -> bool
    ensures { result ≡ admits (role_access_of access.now) peer (key_of bytes.now) }
{
    if !access.lists(peer) {
        return false;
    }
    if access.key.is_none() {
        return true;
    }
    access.is_right_key(srt_streamid::key(bytes))
}

/// Returns the class of a packet from this sender for a visible route: the route's, if one of its lists contains the
/// address.
#[inline(always)]
pub(crate) fn if_known(names: &Names, peer: Peer, route: usize) -> Class
    ensures { result ≡ if_known (knows_caller_at (names_of names.now) route peer) route }
{
    if names.knows(route, peer) {
        Class::Route(route)
    } else {
        Class::Dropped(Cause::NotAllowed)
    }
}
