//! The keys that a conclusion brings: the message in its KMREQ block (draft-sharabayko-srt-01, section 3.2.2).

ghost use Rattle.std.specs.Prelude.{◌≡◌, option_map};
ghost use Rattle.srt_route.specs.RouteKeys.{brought_as, brought_in, cookie_in};
ghost use Rattle.srt_hs.specs.KeyMessage.{message_in};
ghost use Rattle.srt_route.specs.SlotKeys.{brought_of};

use crate::key_text::{BroughtRef, KeyText};
use arrayvec::ArrayVec;
use srt_hs::{KeyRequest, key_request, read_key_message};
use srt_types::read_word;

/// Returns a copy of the contents of the block.
pub(crate) fn text_of(brought: &BroughtRef<'_>) -> KeyText
    ensures { result.bytes.items ≡ brought.now.contents.now }
{
    let mut bytes = ArrayVec::new();
    let _ = bytes.try_extend_from_slice(brought.contents);
    KeyText { bytes }
}

/// Reads the message in the contents of a KMREQ block.
fn read(contents: &[u8]) -> Option<BroughtRef<'_>>
    ensures { option_map brought_of result ≡ brought_as contents.now (message_in contents.now) }
{
    match read_key_message(contents) {
        Ok(message) => Some(BroughtRef { contents, message }),
        Err(_) => None,
    }
}

/// Returns the cookie of a handshake; 0 if it is cut off.
pub(crate) fn cookie_in(info: &[u8]) -> u32
    ensures { result ≡ cookie_in info.now }
{
    if info.len() < 32 {
        return 0;
    }
    read_word(info, 28)
}

/// Returns the keys that a conclusion brings: those of its KMREQ block, if it has exactly one and that reads. `info` is
/// the handshake, the bytes after the packet's header.
pub(crate) fn brought_in(info: &[u8]) -> Option<BroughtRef<'_>>
    ensures { option_map brought_of result ≡ brought_in info.now }
{
    match key_request(info) {
        KeyRequest::One(contents) => read(contents),
        KeyRequest::Missing => None,
        KeyRequest::Several => None,
    }
}
