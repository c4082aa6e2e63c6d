//! Cookies (draft-sharabayko-srt-01, section 4.3.1.1; the formula is our choice).

ghost use Rattle.std.specs.Prelude.{◌≡◌, ◌<◌, ◌↔◌, IsTrue};
ghost use Rattle.srt_cookie.specs.Cookie.{cookie_of, minute_of, IsRight, is_right, secret_bytes};

use crate::Secret;
use sha2::{Digest, Sha256};
use srt_types::Peer;

const MICROSECONDS_OF_A_MINUTE: u64 = 60_000_000;

/// Returns the number of whole minutes in `moment`, a time in microseconds.
pub fn minute_of(moment: u64) -> u64
    ensures { result ≡ minute_of moment }
{
    moment / MICROSECONDS_OF_A_MINUTE
}

/// Returns the cookie of a peer in a minute, as [`minute_of`] counts: the first four bytes of a SHA-256 hash, as a
/// number in network byte order, with 1 in place of 0. Costs one hash of 58 bytes.
#[tactic(auto, unfolding(crate::specs::Cookie::cookie_of))]
pub fn cookie(secret: &Secret, peer: Peer, minute: u64) -> u32
    ensures some { 0 < result }
    ensures value { result ≡ cookie_of (secret_bytes secret.now) peer minute }
{
    let mut hasher = Sha256::new();
    hasher.update(&secret.bytes);
    hasher.update(&peer.ip);
    hasher.update(&peer.port.to_be_bytes());
    hasher.update(&minute.to_be_bytes());
    let hash = hasher.finalize();
    let front = u32::from_be_bytes([hash[0], hash[1], hash[2], hash[3]]);
    if front == 0 { 1 } else { front }
}

/// Whether the word that a peer returned at `moment`, in microseconds, is its cookie of the same minute or of the
/// minute before. So a cookie is valid for at least one minute and less than two. Costs one or two hashes.
pub fn right(secret: &Secret, peer: Peer, moment: u64, word: u32) -> bool
    ensures cookie { IsTrue result ↔ IsRight (secret_bytes secret.now) peer moment word }
    ensures value { result ≡ is_right (secret_bytes secret.now) peer moment word }
{
    let minute = minute_of(moment);
    word == cookie(secret, peer, minute) || minute > 0 && word == cookie(secret, peer, minute - 1)
}
