//! The rounds of the cipher on eight planes of two words, so on eight blocks at once.

ghost use Rattle.std.specs.Prelude.{◌≡◌, ◌<◌, ◌%◌, ◌+◌, ℕ, List};
ghost use Rattle.srt_aes.specs.inside.Circuit.{on_words, substituted};
ghost use Rattle.srt_aes.specs.inside.Planes.{joined, sums, mix_sums, mixed_by, mix_words, bent, closed_words};
ghost use Rattle.srt_aes.specs.inside.Turns.{bend_of};

use crate::circuit::substitute;
use crate::turn::Turn;
use std::simd::prelude::*;

/// AddRoundKey() of the planes of a round key, to both words of each plane (FIPS 197).
#[inline(always)]
pub(crate) fn add_key(state: [u64x2; 8], key: &[u64; 8]) -> [u64x2; 8]
    ensures { (a b : List ℕ) → state ≡ joined 8 a b → result ≡ joined 8 (sums a key.now) (sums b key.now) }
{
    [
        state[0] ^ u64x2::splat(key[0]),
        state[1] ^ u64x2::splat(key[1]),
        state[2] ^ u64x2::splat(key[2]),
        state[3] ^ u64x2::splat(key[3]),
        state[4] ^ u64x2::splat(key[4]),
        state[5] ^ u64x2::splat(key[5]),
        state[6] ^ u64x2::splat(key[6]),
        state[7] ^ u64x2::splat(key[7]),
    ]
}

#[inline(always)]
fn added(state: [u64x2; 8], other: [u64x2; 8]) -> [u64x2; 8]
    ensures { (a b s t : List ℕ) → state ≡ joined 8 a b → other ≡ joined 8 s t → result ≡ joined 8 (sums a s) (sums b t) }
{
    [
        state[0] ^ other[0],
        state[1] ^ other[1],
        state[2] ^ other[2],
        state[3] ^ other[3],
        state[4] ^ other[4],
        state[5] ^ other[5],
        state[6] ^ other[6],
        state[7] ^ other[7],
    ]
}

#[inline(always)]
fn turned(s: [u64x2; 8], by: Turn) -> [u64x2; 8]
    ensures { (a b : List ℕ) → s ≡ joined 8 a b → result ≡ joined 8 (bent (bend_of by) a) (bent (bend_of by) b) }
{
    let m = u64x2::splat(by.mask);
    let n = u64x2::splat(!by.mask);
    let r = u64x2::splat(by.low);
    let l = u64x2::splat(64 - by.low);
    let q = u64x2::splat(by.high);
    let k = u64x2::splat(64 - by.high);
    [
        (((s[0] >> r) ^ (s[0] << l)) & m) ^ (((s[0] >> q) ^ (s[0] << k)) & n),
        (((s[1] >> r) ^ (s[1] << l)) & m) ^ (((s[1] >> q) ^ (s[1] << k)) & n),
        (((s[2] >> r) ^ (s[2] << l)) & m) ^ (((s[2] >> q) ^ (s[2] << k)) & n),
        (((s[3] >> r) ^ (s[3] << l)) & m) ^ (((s[3] >> q) ^ (s[3] << k)) & n),
        (((s[4] >> r) ^ (s[4] << l)) & m) ^ (((s[4] >> q) ^ (s[4] << k)) & n),
        (((s[5] >> r) ^ (s[5] << l)) & m) ^ (((s[5] >> q) ^ (s[5] << k)) & n),
        (((s[6] >> r) ^ (s[6] << l)) & m) ^ (((s[6] >> q) ^ (s[6] << k)) & n),
        (((s[7] >> r) ^ (s[7] << l)) & m) ^ (((s[7] >> q) ^ (s[7] << k)) & n),
    ]
}

#[inline(always)]
fn mix_of(b: [u64x2; 8], c: [u64x2; 8], d: [u64x2; 8]) -> [u64x2; 8]
    ensures { (b0 b1 c0 c1 d0 d1 : List ℕ) → b ≡ joined 8 b0 b1 → c ≡ joined 8 c0 c1 → d ≡ joined 8 d0 d1 →
        result ≡ joined 8 (mix_sums b0 c0 d0) (mix_sums b1 c1 d1) }
{
    [
        b[0] ^ c[7] ^ d[0],
        b[1] ^ c[0] ^ c[7] ^ d[1],
        b[2] ^ c[1] ^ d[2],
        b[3] ^ c[2] ^ c[7] ^ d[3],
        b[4] ^ c[3] ^ c[7] ^ d[4],
        b[5] ^ c[4] ^ d[5],
        b[6] ^ c[5] ^ d[6],
        b[7] ^ c[6] ^ d[7],
    ]
}

/// MixColumns() of a state, where a row's bytes are brought to the next row and two rows on so.
#[inline(always)]
fn mixed(state: [u64x2; 8], to_next: Turn, two_on: Turn) -> [u64x2; 8]
    ensures { (a b : List ℕ) → state ≡ joined 8 a b →
        result ≡ joined 8 (mixed_by (bend_of to_next) (bend_of two_on) a) (mixed_by (bend_of to_next) (bend_of two_on) b) }
{
    let next = turned(state, to_next);
    let pairs = added(state, next);
    let further = turned(pairs, two_on);
    mix_of(next, pairs, further)
}

/// MixColumns() of a state whose rows are turned by `turn` times their number (FIPS 197).
#[inline(always)]
#[tactic(auto, unfolding(crate::specs::inside::Planes::mix_words))]
fn mix_columns(state: [u64x2; 8], turn: usize) -> [u64x2; 8]
    requires { turn < 4 }
    ensures { (a b : List ℕ) → state ≡ joined 8 a b → result ≡ joined 8 (mix_words turn a) (mix_words turn b) }
{
    let even = Turn::new(32, 32, 0xffff_ffff_ffff_ffff);
    let odd = Turn::new(40, 24, 0x00ff_00ff_00ff_00ff);
    match turn {
        1 => mixed(state, Turn::new(20, 4, 0x0fff_0fff_0fff_0fff), odd),
        2 => mixed(state, Turn::new(24, 8, 0x00ff_00ff_00ff_00ff), even),
        3 => mixed(state, Turn::new(28, 12, 0x000f_000f_000f_000f), odd),
        _ => mixed(state, Turn::new(16, 16, 0xffff_ffff_ffff_ffff), even),
    }
}

/// The rounds of Cipher() on eight blocks, `last` of them (FIPS 197).
pub(crate) fn close(state: [u64x2; 8], keys: &[[u64; 8]; 15], last: usize) -> [u64x2; 8]
    requires some { 0 < last }
    requires few { last < 15 }
    ensures { (a b : List ℕ) → state ≡ joined 8 a b → result ≡ joined 8 (closed_words keys.now last a) (closed_words keys.now last b) }
{
    let mut now = add_key(state, &keys[0]);
    for round in 1..last {
        now = add_key(mix_columns(substitute(now), round % 4), &keys[round]);
    }
    add_key(substitute(now), &keys[last])
}
