//! The key that wraps the stream encrypting keys of a session.

ghost use Rattle.std.specs.Prelude.{◌≡◌, ◌≤◌, ℕ, List, length, take, ◌+◌, option_map, is_some, IfSome};
ghost use Rattle.srt_aes.specs.Aes.{IsKeyLength};
ghost use Rattle.srt_aes.specs.Keys.{key_of};
ghost use Rattle.srt_keys.specs.Pbkdf2.{kek};
ghost use Rattle.srt_keys.specs.Wrap.{unwrap};
ghost use Rattle.srt_hs.specs.KeyMessage.{wrapped_length};
ghost use Rattle.srt_hs.specs.KeyView.{message_of};

use crate::limiter::DerivationPermit;
use srt_aes::RoundKeys;
use srt_hs::KeyMessageRef;
use srt_keys::{kek, unwrap};
use std::mem;

/// The first 32 of 40 bytes.
fn front(bytes: &[u8; 40]) -> [u8; 32]
    ensures { result ≡ take 32 bytes.now }
{
    let mut front = [0u8; 32];
    front.copy_from_slice(&bytes[..32]);
    front
}

/// The key encrypting key (KEK) of a session, of 16, 24 or 32 bytes, and the session's salt. It can't be read or printed.
#[derive(Drop)]
pub struct WrappingKey {
    bytes: [u8; 32],
    size: usize,
    pub(crate) salt: [u8; 16],
    ghost whole: { IsKeyLength size },
}

impl WrappingKey {
    ghost use Rattle.srt_session_keys.specs.Wrapping.{kek_of, salt_of, fits, brings, WrappingKeyIsErased};

    /// Derives the key from a passphrase, for the salt and the length of keys of the caller's message: PBKDF2 with 2048 rounds,
    /// which takes milliseconds. Each derivation takes a permission of the limit on them.
    pub fn derive(
        permit: DerivationPermit,
        passphrase: &[u8],
        message: &KeyMessageRef<'_>,
    ) -> WrappingKey
        ensures kek { kek_of result ≡ kek passphrase.now message.now.salt message.now.key_length }
        ensures salt { salt_of result ≡ message.now.salt }
    {
        mem::drop(permit);
        let size = message.key_length;
        let derived = kek(passphrase, &message.salt, size);
        WrappingKey {
            bytes: front(&derived),
            size,
            salt: message.salt,
        }
    }

    /// The length of the session's keys, in bytes: 16, 24 or 32.
    pub fn key_length(&self) -> usize
        ensures value { result ≡ length (kek_of self.now) }
        ensures valid { IsKeyLength result }
    {
        self.size
    }

    /// The key itself.
    pub(crate) fn bytes(&self) -> &[u8]
        ensures { result.now ≡ kek_of self.now }
    {
        &self.bytes[..self.size]
    }

    /// The key schedule.
    pub(crate) fn round_keys(&self) -> RoundKeys
        ensures key { key_of result ≡ kek_of self.now }
        ensures whole { IsKeyLength (length (key_of result)) }
    {
        RoundKeys::new(&self.bytes[..self.size])
    }

    /// Whether a message has the salt and the length of keys of this session.
    pub(crate) fn fits(&self, message: &KeyMessageRef<'_>) -> bool
        ensures { result ≡ fits (kek_of self.now) (salt_of self.now) (length (kek_of self.now)) (message_of message.now) }
    {
        message.salt[..] == self.salt[..] && message.key_length == self.size
    }

    /// Unwraps the keys of a message to the front of `out`, and returns their length in bytes. None if they were wrapped with
    /// another key.
    pub(crate) fn unwrapped(&self, message: &KeyMessageRef<'_>, out: &mut [u8; 64]) -> Option<usize>
        ensures value { option_map (λ n. take n out.new) result ≡ unwrap (kek_of self.now) message.now.wrapped.now }
        ensures long { IfSome result (λ n. n + 8 ≡ wrapped_length message.now.keys message.now.key_length) }
    {
        unwrap(&self.round_keys(), message.wrapped, out)
    }

    /// Whether the keys of a message can be unwrapped: whether its sender knows the passphrase.
    pub fn unwraps(&self, message: &KeyMessageRef<'_>) -> bool
        ensures { result ≡ is_some (brings (kek_of self.now) (message_of message.now)) }
    {
        let mut text = [0u8; 64];
        self.unwrapped(message, &mut text).is_some()
    }

    /// Overwrites the key and the salt with zeros.
    pub fn forget(&mut self)
        ensures erased { WrappingKeyIsErased self.new }
        ensures long { length (kek_of self.new) ≡ length (kek_of self.old) }
    {
        self.bytes = [0; 32];
        self.salt = [0; 16];
    }
}
