//! HMAC-SHA1 and HMAC-SHA256 (RFC 2104).

ghost use Rattle.std.specs.Prelude.{◌≡◌, ◌++◌, ◌-◌, ◌≤◌, List, ℕ, length, replicate};
ghost use Rattle.sha1.specs.Sha1.{Holds, sha1};
ghost use Rattle.sha2.specs.Sha256.{sha256};
ghost use Rattle.srt_keys.specs.Hmac.{hmac_sha1, hmac_sha256, inner_key, outer_key, padded_key, xor_each};

use sha1::Sha1;
use sha2::{Digest, Sha256};

/// The size of a block of SHA-1 and of SHA-256, in bytes.
const HASH_BLOCK: usize = 64;

/// At most 64 bytes with zeros behind them.
fn extended(bytes: &[u8]) -> [u8; HASH_BLOCK]
    requires { length bytes.now ≤ 64 }
    ensures { result ≡ bytes.now ++ replicate (64 - length bytes.now) 0 }
{
    let mut long = [0u8; HASH_BLOCK];
    long[..bytes.len()].copy_from_slice(bytes);
    long
}

/// The key with zeros behind it, or its hash if it is longer than 64 bytes.
fn padded(key: &[u8]) -> [u8; HASH_BLOCK]
    ensures { result ≡ padded_key sha1 key.now }
{
    if key.len() > HASH_BLOCK {
        extended(&Sha1::digest(key))
    } else {
        extended(key)
    }
}

/// Each byte added to `byte`, bit by bit.
fn xored(bytes: &[u8; HASH_BLOCK], byte: u8) -> [u8; HASH_BLOCK]
    ensures { result ≡ xor_each byte bytes.now }
{
    let mut sums = [0u8; HASH_BLOCK];
    for i in 0..HASH_BLOCK {
        sums[i] = bytes[i] ^ byte;
    }
    sums
}

/// A hasher in the same state. Its `clone` never fails.
fn copied(hasher: &Sha1) -> Sha1
    ensures { result ≡ hasher.now }
{
    match hasher.clone() {
        Ok(copy) => copy,
        Err(_) => Sha1::new(),
    }
}

/// A key of HMAC-SHA1, hashed once for all texts.
#[derive(Drop)]
pub struct HmacKey {
    inner: Sha1,
    outer: Sha1,
}

impl HmacKey {
    ghost use Rattle.srt_keys.specs.Held.{IsHmacKey};

    /// Prepares a key of any length.
    pub fn new(key: &[u8]) -> HmacKey
        ensures { IsHmacKey result key.now }
    {
        let bytes = padded(key);
        let mut inner = Sha1::new();
        inner.update(&xored(&bytes, 0x36));
        let mut outer = Sha1::new();
        outer.update(&xored(&bytes, 0x5c));
        HmacKey { inner, outer }
    }

    /// HMAC-SHA1 of a text. Hashes two blocks of 64 bytes for a text of at most 55 bytes.
    pub fn hmac(&self, text: &[u8]) -> [u8; 20]
        ensures { (key : List ℕ) → IsHmacKey self.now key → result ≡ hmac_sha1 key text.now }
    {
        let mut inner = copied(&self.inner);
        inner.update(text);
        let mut outer = copied(&self.outer);
        outer.update(&inner.finalize());
        outer.finalize()
    }
}

/// The key with zeros behind it, or its SHA-256 hash if it is longer than 64 bytes.
fn padded_for_sha256(key: &[u8]) -> [u8; HASH_BLOCK]
    ensures { result ≡ padded_key sha256 key.now }
{
    if key.len() > HASH_BLOCK {
        extended(&Sha256::digest(key))
    } else {
        extended(key)
    }
}

/// HMAC-SHA256 of a text, under a key of any length.
pub fn hmac_sha256(key: &[u8], text: &[u8]) -> [u8; 32]
    ensures { result ≡ hmac_sha256 key.now text.now }
{
    let bytes = padded_for_sha256(key);
    let mut inner = Sha256::new();
    inner.update(&xored(&bytes, 0x36));
    inner.update(text);
    let mut outer = Sha256::new();
    outer.update(&xored(&bytes, 0x5c));
    outer.update(&inner.finalize());
    outer.finalize()
}
