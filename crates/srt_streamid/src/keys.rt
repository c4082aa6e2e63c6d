//! The keys of a list, read from left to right: the parts between its commas, the name under `r` and the role under
//! `m`, and the fault of a repeated key (draft-sharabayko-srt-01, appendix B.2; the order of faults is our choice).

ghost use Rattle.std.specs.Prelude.{◌≡◌, ℕ, ◌+◌, ◌<◌, ◌≤◌, ◌^◌, ◌==◌, ◌∷◌, List, length, position, IfSome, MatchOption, option_map};
ghost use Rattle.std.specs.Option.{option_copied};
ghost use Rattle.srt_streamid.specs.Parts.{parts_from, parts_behind, keys_in, first_text, parts_of, key_in};
ghost use Rattle.srt_streamid.specs.Reading.{role_in, list_in};

use crate::reading::{Ask, AskFault, named};
use srt_types::Role;

/// The position of a name in the bytes of a Stream ID.
#[derive(Clone, Copy)]
pub struct Span {
    /// The offset of its first byte.
    pub start: usize,
    /// Its length in bytes.
    pub len: usize,
}

/// The name and the role found so far.
#[derive(Clone, Copy)]
pub struct Found {
    /// The route's name, if a part has it. It may be empty.
    pub name: Option<Span>,
    /// The role, if a part has it.
    pub role: Option<Role>,
}

/// The key of a route's name (appendix B.2).
const RESOURCE: &[u8] = b"r";

/// The key of a mode (appendix B.2).
const MODE: &[u8] = b"m";

/// The key that a route may require for admission (our choice).
const ADMISSION: &[u8] = b"k";

/// The mode of a caller that sends the stream (appendix B.2).
const PUBLISH: &[u8] = b"publish";

/// The mode of a caller that receives the stream (appendix B.2).
const REQUEST: &[u8] = b"request";

/// Returns the offset of the first byte of the text with this value. None if there is none. Linear in the length.
fn place_of(byte: u8, text: &[u8]) -> Option<usize>
    ensures value { result ≡ position (λ b. b == byte) text.now }
    ensures inside { IfSome result (λ at. at < length text.now) }
{
    text.iter().position(|b| *b == byte)
}

/// Returns the role of a mode. `BadMode` if it is neither `publish` nor `request`.
fn role_of(mode: &[u8]) -> Result<Role, AskFault>
    ensures { result ≡ role_in mode.now }
{
    if mode == PUBLISH {
        Ok(Role::Publish)
    } else if mode == REQUEST {
        Ok(Role::Request)
    } else {
        Err(AskFault::BadMode)
    }
}

impl Found {
    ghost use Rattle.srt_streamid.specs.Reading.{nothing, with_name, with_mode, with_part, requested};
    ghost use Rattle.srt_streamid.specs.Parts.{Piece};

    /// Returns the state before any part: neither a name nor a role.
    pub fn nothing() -> Found
        ensures { result ≡ nothing }
    {
        Found {
            name: None,
            role: None,
        }
    }

    fn with_name(self, name: Span) -> Result<Found, AskFault>
        ensures { (text : List ℕ) → length text ≡ name.len → result ≡ with_name self (record { start = name.start; text = text }) }
    {
        if self.name.is_some() {
            return Err(AskFault::RepeatedKey);
        }
        Ok(Found {
            name: Some(name),
            role: self.role,
        })
    }

    fn with_mode(self, mode: &[u8]) -> Result<Found, AskFault>
        ensures { (start : ℕ) → result ≡ with_mode self (record { start = start; text = mode.now }) }
    {
        let role = role_of(mode)?;
        if self.role.is_some() {
            return Err(AskFault::RepeatedKey);
        }
        Ok(Found {
            name: self.name,
            role: Some(role),
        })
    }

    /// Adds the part that starts at this offset to the name and the role found so far. A part without `=`, or with a
    /// key other than `r` and `m`, changes nothing. `BadMode` for an unknown mode, else `RepeatedKey` for a second `r`
    /// or `m`.
    #[tactic(auto, unfolding(crate::specs::Reading::with_part))]
    pub fn with_part(self, start: usize, part: &[u8]) -> Result<Found, AskFault>
        requires { start + length part.now < 2 ^ 64 }
        ensures { result ≡ with_part self (record { start = start; text = part.now }) }
    {
        let Some(equals) = place_of(b'=', part) else {
            return Ok(self);
        };
        let key = &part[..equals];
        let value = &part[equals + 1..];
        if key == RESOURCE {
            self.with_name(Span {
                start: start + equals + 1,
                len: value.len(),
            })
        } else if key == MODE {
            self.with_mode(value)
        } else {
            Ok(self)
        }
    }

    /// Returns the request of the whole list; without a mode the role is request. `NoRoute` if no name was found, or an
    /// empty one.
    pub fn requested(self) -> Result<Ask, AskFault>
        ensures { result ≡ requested self }
    {
        match self.name {
            Some(name) => named(name.start, name.len, self.role.unwrap_or(Role::Request)),
            None => Err(AskFault::NoRoute),
        }
    }
}

/// Returns the first part of a list, and the bytes after its comma; None if there is no comma.
fn first_part(list: &[u8]) -> (&[u8], Option<&[u8]>)
    ensures parts { (start : ℕ) → parts_from start list.now ≡ record { start = start; text = result.0.now }
        ∷ parts_behind (start + (length result.0.now + 1)) (option_copied result.1) }
    ensures len { MatchOption result.1 (length result.0.now ≡ length list.now)
        (λ more. length result.0.now + (length more.now + 1) ≡ length list.now) }
{
    match place_of(b',', list) {
        Some(len) => (&list[..len], Some(&list[len + 1..])),
        None => (list, None),
    }
}

/// Returns the request of a list. `bytes` begins with the four bytes `#!::`.
pub fn read_list(bytes: &[u8]) -> Result<Ask, AskFault>
    requires { 4 ≤ length bytes.now }
    ensures { result ≡ list_in bytes.now }
{
    let mut found = Found::nothing();
    let mut start = 4;
    let mut list = &bytes[4..];
    loop {
        let (part, more) = first_part(list);
        found = found.with_part(start, part)?;
        let Some(more) = more else {
            return found.requested();
        };
        start += part.len() + 1;
        list = more;
    }
}

/// Returns the value of a part with the key `k`; None if the part has no `=`, or another key before it.
fn key_of_part(part: &[u8]) -> Option<&[u8]>
    ensures { (start : ℕ) → option_copied result ≡ option_map (λ value. value.text) (key_in (record { start = start; text = part.now })) }
{
    let equals = place_of(b'=', part)?;
    if &part[..equals] == ADMISSION {
        Some(&part[equals + 1..])
    } else {
        None
    }
}

/// Returns the key in a list: that of the first part with one. `bytes` begins with the four bytes `#!::`.
#[tactic(auto, using(crate::proofs::Anywhere::anywhere))]
pub fn key_of_list(bytes: &[u8]) -> Option<&[u8]>
    requires { 4 ≤ length bytes.now }
    ensures { option_copied result ≡ first_text (keys_in (parts_of bytes.now)) }
{
    let mut list = &bytes[4..];
    loop {
        let (part, more) = first_part(list);
        if let Some(key) = key_of_part(part) {
            return Some(key);
        }
        let Some(more) = more else {
            return None;
        };
        list = more;
    }
}
