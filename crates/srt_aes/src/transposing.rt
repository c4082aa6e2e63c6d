//! The bits of eight planes as the bytes of eight words: a transposition of 8 by 8 bits at each eight positions, in three layers
//! of SWAPMOVE (May, Penna and Clark, "An implementation of bitsliced DES on the Pentium MMX processor", 2000).

ghost use Rattle.std.specs.Prelude.{◌≡◌, ℕ, List};
ghost use Rattle.srt_aes.specs.inside.Planes.{joined};
ghost use Rattle.srt_aes.specs.inside.Transposing.{swapped, transposed_words};

use std::simd::prelude::*;

/// SWAPMOVE of neighbours.
#[inline(always)]
fn swapped_1(s: [u64x2; 8]) -> [u64x2; 8]
    ensures { (a b : List ℕ) → s ≡ joined 8 a b → result ≡ joined 8 (swapped 1 0x5555_5555_5555_5555 a) (swapped 1 0x5555_5555_5555_5555 b) }
{
    let m = u64x2::splat(0x5555_5555_5555_5555);
    let n = u64x2::splat(1);
    let t0 = ((s[0] >> n) ^ s[1]) & m;
    let t2 = ((s[2] >> n) ^ s[3]) & m;
    let t4 = ((s[4] >> n) ^ s[5]) & m;
    let t6 = ((s[6] >> n) ^ s[7]) & m;
    [
        s[0] ^ (t0 << n),
        s[1] ^ t0,
        s[2] ^ (t2 << n),
        s[3] ^ t2,
        s[4] ^ (t4 << n),
        s[5] ^ t4,
        s[6] ^ (t6 << n),
        s[7] ^ t6,
    ]
}

/// SWAPMOVE of words at a distance of two.
#[inline(always)]
fn swapped_2(s: [u64x2; 8]) -> [u64x2; 8]
    ensures { (a b : List ℕ) → s ≡ joined 8 a b → result ≡ joined 8 (swapped 2 0x3333_3333_3333_3333 a) (swapped 2 0x3333_3333_3333_3333 b) }
{
    let m = u64x2::splat(0x3333_3333_3333_3333);
    let n = u64x2::splat(2);
    let t0 = ((s[0] >> n) ^ s[2]) & m;
    let t1 = ((s[1] >> n) ^ s[3]) & m;
    let t4 = ((s[4] >> n) ^ s[6]) & m;
    let t5 = ((s[5] >> n) ^ s[7]) & m;
    [
        s[0] ^ (t0 << n),
        s[1] ^ (t1 << n),
        s[2] ^ t0,
        s[3] ^ t1,
        s[4] ^ (t4 << n),
        s[5] ^ (t5 << n),
        s[6] ^ t4,
        s[7] ^ t5,
    ]
}

/// SWAPMOVE of words at a distance of four.
#[inline(always)]
fn swapped_4(s: [u64x2; 8]) -> [u64x2; 8]
    ensures { (a b : List ℕ) → s ≡ joined 8 a b → result ≡ joined 8 (swapped 4 0x0f0f_0f0f_0f0f_0f0f a) (swapped 4 0x0f0f_0f0f_0f0f_0f0f b) }
{
    let m = u64x2::splat(0x0f0f_0f0f_0f0f_0f0f);
    let n = u64x2::splat(4);
    let t0 = ((s[0] >> n) ^ s[4]) & m;
    let t1 = ((s[1] >> n) ^ s[5]) & m;
    let t2 = ((s[2] >> n) ^ s[6]) & m;
    let t3 = ((s[3] >> n) ^ s[7]) & m;
    [
        s[0] ^ (t0 << n),
        s[1] ^ (t1 << n),
        s[2] ^ (t2 << n),
        s[3] ^ (t3 << n),
        s[4] ^ t0,
        s[5] ^ t1,
        s[6] ^ t2,
        s[7] ^ t3,
    ]
}

/// The words whose bytes are those of the blocks that planes hold: byte k of word j has its bits at position 8 k + j of the planes.
#[inline(always)]
pub(crate) fn transposed(planes: [u64x2; 8]) -> [u64x2; 8]
    ensures { (a b : List ℕ) → planes ≡ joined 8 a b → result ≡ joined 8 (transposed_words a) (transposed_words b) }
{
    swapped_4(swapped_2(swapped_1(planes)))
}
