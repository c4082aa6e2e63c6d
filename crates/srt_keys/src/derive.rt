//! PBKDF2 with HMAC-SHA1 (RFC 8018).

ghost use Rattle.std.specs.Prelude.{◌≡◌, ◌<◌, ◌≤◌, ◌++◌, ℕ, List, take, length, bit_xor};
ghost use lib.Lanes.{zip2};
ghost use Rattle.srt_keys.specs.Hmac.{hmac_sha1};
ghost use Rattle.srt_keys.specs.Held.{IsHmacKey};
ghost use Rattle.srt_keys.specs.Pbkdf2.{block_of, round_of, kek};

use crate::hmac::HmacKey;
use srt_aes::add_bytes;

/// The rounds of SRT (draft-sharabayko-srt-01).
const ROUNDS: u32 = 2048;

/// One more round: the HMAC of the last one, which is added to the sum.
fn step(key: &HmacKey, last: &mut [u8; 20], sum: &mut [u8; 20])
    ensures round { (password : List ℕ) → IsHmacKey key.now password → last.new ≡ hmac_sha1 password last.old }
    ensures added { sum.new ≡ zip2 bit_xor sum.old last.new }
{
    let next = key.hmac(last);
    *last = next;
    add_bytes(sum, last);
}

/// A block of the derived key.
fn derived(key: &HmacKey, salt: &[u8; 8], index: u32) -> [u8; 20]
    ensures { (password : List ℕ) → IsHmacKey key.now password → result ≡ block_of password salt.now index 2047 }
{
    let at = index.to_be_bytes();
    let text = [
        salt[0], salt[1], salt[2], salt[3], salt[4], salt[5], salt[6], salt[7], at[0], at[1],
        at[2], at[3],
    ];
    let mut last = key.hmac(&text);
    let mut sum = last;
    for round in 1..ROUNDS {
        step(key, &mut last, &mut sum);
    }
    sum
}

/// A block of the derived key, and a second one behind it.
fn joined(first: &[u8; 20], second: &[u8; 20]) -> [u8; 40]
    ensures value { result ≡ first.now ++ second.now }
    ensures long { length first.now ≡ 20 }
{
    [
        first[0], first[1], first[2], first[3], first[4], first[5], first[6], first[7], first[8],
        first[9], first[10], first[11], first[12], first[13], first[14], first[15], first[16],
        first[17], first[18], first[19], second[0], second[1], second[2], second[3], second[4],
        second[5], second[6], second[7], second[8], second[9], second[10], second[11], second[12],
        second[13], second[14], second[15], second[16], second[17], second[18], second[19],
    ]
}

/// The key that wraps stream encrypting keys, in the first `length` bytes: PBKDF2 of the passphrase and of the low 64 bits
/// of the salt, with 2048 rounds (draft-sharabayko-srt-01). Takes twice as long for more than 20 bytes.
pub fn kek(passphrase: &[u8], salt: &[u8; 16], length: usize) -> [u8; 40]
    requires { length ≤ 40 }
    ensures { take length result ≡ kek passphrase.now salt.now length }
{
    let key = HmacKey::new(passphrase);
    let low = [
        salt[8], salt[9], salt[10], salt[11], salt[12], salt[13], salt[14], salt[15],
    ];
    let first = derived(&key, &low, 1);
    if length > 20 {
        let second = derived(&key, &low, 2);
        joined(&first, &second)
    } else {
        joined(&first, &[0u8; 20])
    }
}
