//! Keys of encrypted SRT streams (draft-sharabayko-srt-01).
//!
//! A passphrase and a salt give the key that wraps stream encrypting keys: [`kek`] (`derive.rt`), PBKDF2 with HMAC-SHA1 of
//! RFC 8018. A passphrase is hashed once for all rounds ([`HmacKey`], `hmac.rt`). [`wrap`] and [`unwrap`] (`wrapping.rt`) are
//! the key wrap of RFC 3394. [`hmac_sha256`] is HMAC-SHA256. Nothing allocates. `specs/Hmac.antt` has HMAC over the
//! hashes' own definitions, `specs/Pbkdf2.antt` PBKDF2, and `specs/Wrap.antt` the wrap.
#![tactic(auto)]

mod derive;
mod hmac;
mod wrapping;

pub use derive::kek;
pub use hmac::{HmacKey, hmac_sha256};
pub use wrapping::{MAX_UNWRAPPED, MAX_WRAPPED, unwrap, wrap};

#[cfg(test)]
mod tests;
