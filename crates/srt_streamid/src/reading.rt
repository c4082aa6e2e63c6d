//! Stream IDs decoded from borrowed bytes: whether they are text, and a list or a plain name (draft-sharabayko-srt-01,
//! appendix B).

ghost use Rattle.std.specs.Prelude.{◌≡◌, ◌+◌, ◌≤◌, ◌↔◌, length, IfOk, Ok, Err};
ghost use Rattle.std.specs.Option.{option_copied};
ghost use Rattle.std.specs.Str.{is_utf8};
ghost use Rattle.srt_streamid.specs.Reading.{ask_in, key_of, named};
ghost use Rattle.srt_streamid.specs.Spelling.{Asks, HasFault};
ghost use Rattle.srt_streamid.specs.declared.reading.Ask.{Ask as TheAsk};
ghost use Rattle.srt_streamid.specs.declared.reading.AskFault.{AskFault as TheFault};

use crate::keys::{key_of_list, read_list};
use srt_types::Role;
use std::str;

/// The request in a Stream ID. The route's name is a span of the bytes that were read.
#[derive(Clone, Copy, Debug, PartialEq, Eq)]
pub struct Ask {
    /// The offset of the first byte of the route's name.
    pub start: usize,
    /// The length of the name in bytes: at least 1, and at most the number of bytes from `start` on.
    pub len: usize,
    /// Whether the caller publishes to the route or requests its stream.
    pub role: Role,
}

/// Why a Stream ID requests nothing. `NotUtf8` takes precedence, then the first `BadMode` or `RepeatedKey` from the
/// left. `NoRoute` is returned only if there is no other fault (the order is our choice).
#[derive(Clone, Copy, Debug, PartialEq, Eq)]
pub enum AskFault {
    /// The bytes aren't UTF-8.
    NotUtf8,
    /// The route's name is empty or missing: no `r` in a list, or no text at all.
    NoRoute,
    /// The key `m` has a value other than `request` and `publish`. It takes precedence over `RepeatedKey` in the same
    /// part.
    BadMode,
    /// A second part with the key `r`, or a second one with the key `m`, even if the values are the same.
    RepeatedKey,
}

/// The first four bytes of a list of keys and values (appendix B.1).
const LIST: &[u8] = b"#!::";

/// Whether the bytes are UTF-8.
fn is_text(bytes: &[u8]) -> bool
    ensures { result ≡ is_utf8 bytes.now }
{
    str::from_utf8(bytes).is_ok()
}

/// Returns the result of [`read`].
#[tactic(auto, unfolding(crate::specs::Reading::ask_in))]
fn ask_of(bytes: &[u8]) -> Result<Ask, AskFault>
    ensures { result ≡ ask_in bytes.now }
{
    if !is_text(bytes) {
        return Err(AskFault::NotUtf8);
    }
    if bytes.starts_with(LIST) {
        read_list(bytes)
    } else {
        named(0, bytes.len(), Role::Request)
    }
}

/// Reads a Stream ID of any length. `bytes` is its text without the zeros that pad it in a handshake. A text that
/// begins with `#!::` is a list of parts. Keys and modes are case-sensitive, and keys other than `r` and `m` are
/// ignored. Any other text is a route's name, with the role request (our choice). Linear in the number of bytes; copies
/// nothing.
pub fn read(bytes: &[u8]) -> Result<Ask, AskFault>
    // The result is exactly what the Stream ID requests.
    ensures asks { (ask : TheAsk) → (result ≡ Ok ask) ↔ Asks bytes.now ask }
    // A fault is returned exactly if the Stream ID has it.
    ensures fault { (fault : TheFault) → (result ≡ Err fault) ↔ HasFault bytes.now fault }
    ensures inside { IfOk result (λ ask. ask.start + ask.len ≤ length bytes.now) }
    ensures value { result ≡ ask_in bytes.now }
{
    ask_of(bytes)
}

/// Returns the key in a Stream ID, for a route that requires one. In a list it is the value of the first part with the
/// key `k` and an `=`, which may be empty. None in a list without such a part, and in any other text (our choice).
/// Linear in the number of bytes; copies nothing.
#[tactic(auto, unfolding(crate::specs::Reading::key_of))]
pub fn key(bytes: &[u8]) -> Option<&[u8]>
    ensures { option_copied result ≡ key_of bytes.now }
{
    if bytes.starts_with(LIST) {
        key_of_list(bytes)
    } else {
        None
    }
}

/// Returns the request for the name with this offset and length, in this role. `NoRoute` if the name is empty.
pub(crate) fn named(start: usize, len: usize, role: Role) -> Result<Ask, AskFault>
    ensures { result ≡ named start len role }
{
    if len == 0 {
        Err(AskFault::NoRoute)
    } else {
        Ok(Ask { start, len, role })
    }
}
