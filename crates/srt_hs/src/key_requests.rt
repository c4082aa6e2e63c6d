//! The KMREQ block of a conclusion (draft-sharabayko-srt-01, sections 3.2.1 and 3.2.2).

ghost use Rattle.std.specs.Prelude.{◌≡◌, ◌+◌, ◌≤◌, length, IfSome, IfNone, true, false};
ghost use Rattle.srt_hs.specs.Grammar.{after_block};
ghost use Rattle.srt_hs.specs.KeyRequest.{begins_with_block, with_request, with_first_request, requests_in, key_request_in};
ghost use Rattle.srt_hs.specs.KeyAsked.{asked_of};

use crate::reading::read_half;
use srt_types::read_word;

/// The KMREQ block of a conclusion: whether the caller brings keys.
#[derive(Clone, Copy)]
pub enum KeyRequest<'a> {
    /// There is none.
    Missing,
    /// There is one, with these contents: whole words. [`read_key_message`](crate::read_key_message) reads them.
    One(&'a [u8]),
    /// There are two or more.
    Several,
}

fn with_request<'a>(before: KeyRequest<'a>, contents: &'a [u8]) -> KeyRequest<'a>
    ensures { asked_of result ≡ with_request (asked_of before.entry) contents.now }
{
    match before {
        KeyRequest::Missing => KeyRequest::One(contents),
        KeyRequest::One(_) => KeyRequest::Several,
        KeyRequest::Several => KeyRequest::Several,
    }
}

/// Adds the first block of these bytes, if it is a KMREQ, and returns the bytes after that block too. None if it isn't
/// complete.
fn with_first<'a>(before: KeyRequest<'a>, bytes: &'a [u8]) -> Option<(KeyRequest<'a>, &'a [u8])>
    ensures cut { IfNone result (begins_with_block bytes.now ≡ false) }
    ensures whole { IfSome result (λ x. begins_with_block bytes.now ≡ true) }
    ensures blocks { IfSome result (λ x. asked_of x.0 ≡ with_first_request (asked_of before.entry) bytes.now) }
    ensures rest { IfSome result (λ x. x.1.now ≡ after_block bytes.now) }
    ensures shorter { IfSome result (λ x. length x.1.now + 4 ≤ length bytes.now) }
{
    if bytes.len() < 4 {
        return None;
    }
    let len = 4 * usize::from(read_half(bytes, 2));
    let rest = &bytes[4..];
    if rest.len() < len {
        return None;
    }
    if read_half(bytes, 0) == 3 {
        Some((with_request(before, &rest[..len]), &rest[len..]))
    } else {
        Some((before, &rest[len..]))
    }
}

/// The KMREQ blocks among these blocks.
#[tactic(auto, unfolding(crate::specs::KeyRequest::requests_in))]
fn requests(bytes: &[u8]) -> KeyRequest<'_>
    ensures { asked_of result ≡ requests_in bytes.now }
{
    let mut asked = KeyRequest::Missing;
    let mut rest = bytes;
    while !rest.is_empty() {
        match with_first(asked, rest) {
            None => return asked,
            Some((more, after)) => {
                asked = more;
                rest = after;
            }
        }
    }
    asked
}

/// Finds the KMREQ block in the bytes after a packet's header, which are a handshake: none unless it is a conclusion. The
/// result has meaning where [`read`](crate::read) reads the same bytes. Copies nothing. Linear in the number of blocks.
pub fn key_request(body: &[u8]) -> KeyRequest<'_>
    ensures { asked_of result ≡ key_request_in body.now }
{
    if body.len() < 48 {
        return KeyRequest::Missing;
    }
    if read_word(body, 20) != 0xffff_ffff {
        return KeyRequest::Missing;
    }
    requests(&body[48..])
}
