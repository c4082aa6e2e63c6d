//! What a subscriber's keys are made of.

ghost use Rattle.std.specs.Prelude.{◌≡◌, ◌≤◌, ◌+◌, length, take};
ghost use Rattle.srt_session_keys.specs.Wrapping.{kek_of};
ghost use Rattle.srt_session_keys.specs.Source.{source_of, own_text, name_of};

use crate::wrapping_key::WrappingKey;
use srt_hs::{KeyMessageRef, SentKeys, write_key_message};
use srt_keys::{hmac_sha256, wrap};

/// What the keys of a subscriber's session are made of.
#[derive(Drop)]
pub(crate) struct KeySource {
    pub(crate) kek: WrappingKey,
    pub(crate) session: u32,
    pub(crate) count: u64,
    pub(crate) hash: [u8; 32],
}

/// The name of the key with an index: the first one is the odd one.
pub(crate) fn name_of(index: u64) -> SentKeys
    ensures { result ≡ name_of index }
{
    if index % 2 == 0 {
        SentKeys::Odd
    } else {
        SentKeys::Even
    }
}

/// The text of which a key is made.
fn own_text(source: &KeySource, index: u64) -> [u8; 52]
    ensures { result ≡ own_text (source_of source.now) index }
{
    let mut text = [0u8; 52];
    text[..4].copy_from_slice(&source.session.to_be_bytes());
    text[4..12].copy_from_slice(&source.count.to_be_bytes());
    text[12..20].copy_from_slice(&index.to_be_bytes());
    text[20..].copy_from_slice(&source.hash);
    text
}

impl KeySource {
    ghost use Rattle.std.specs.Prelude.{replicate};
    ghost use Rattle.srt_session_keys.specs.Wrapping.{WrappingKeyIsErased};
    ghost use Rattle.srt_session_keys.specs.Source.{own, own_message};

    /// The session's key with an index, in the first bytes.
    #[tactic(auto, unfolding(crate::specs::Source::own))]
    pub(crate) fn own(&self, index: u64) -> [u8; 32]
        ensures { take (length (kek_of self.now.kek)) result ≡ own (source_of self.now) index }
    {
        hmac_sha256(self.kek.bytes(), &own_text(self, index))
    }

    /// Writes the message that brings the key with an index, and returns its length.
    #[tactic(auto, unfolding(crate::specs::Source::own_message))]
    pub(crate) fn write_message(&self, index: u64, key: &[u8], out: &mut [u8; 104]) -> usize
        requires own { key.now ≡ own (source_of self.now) index }
        requires long { length key.now ≡ length (kek_of self.now.kek) }
        ensures within { result ≤ 104 }
        ensures written { take result out.new ≡ own_message (source_of self.now) index }
    {
        let size = self.kek.key_length();
        let wrapped = wrap(&self.kek.round_keys(), key);
        let message = KeyMessageRef {
            keys: name_of(index),
            key_length: size,
            salt: self.kek.salt,
            wrapped: &wrapped[..size + 8],
        };
        write_key_message(&message, out)
    }

    /// Overwrites everything with zeros.
    pub(crate) fn forget(&mut self)
        ensures kek { WrappingKeyIsErased self.new.kek }
        ensures session { self.new.session ≡ 0 }
        ensures count { self.new.count ≡ 0 }
        ensures hash { self.new.hash ≡ replicate 32 0 }
    {
        self.kek.forget();
        self.session = 0;
        self.count = 0;
        self.hash = [0; 32];
    }
}
