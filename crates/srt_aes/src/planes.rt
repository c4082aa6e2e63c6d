//! Bytes to planes and back.

ghost use Rattle.std.specs.Prelude.{◌≡◌, ◌<◌, ◌≤◌, ◌+◌, ◌*◌, ◌%◌, ◌^◌, ℕ, List, map, slice_index};
ghost use Rattle.std.specs.Int.{bit_at};
ghost use Rattle.std.specs.List.{range_with_len};
ghost use Rattle.srt_aes.specs.inside.Planes.{joined, sums, nibble, nibbles, slot, spread_words, byte_at, block_in};
ghost use Rattle.srt_aes.specs.inside.Transposing.{transposed_words};

use std::simd::prelude::*;

/// The slot of the planes that holds the byte of a state at an index, in a state whose rows are turned by `turn` times their
/// number.
fn slot(turn: usize, index: usize) -> usize
    requires turns { turn < 4 }
    requires indices { index < 16 }
    ensures value { result ≡ slot turn index }
    ensures few { result < 16 }
{
    index % 4 * 4 + (index / 4 + turn * (index % 4)) % 4
}

/// A bit of a byte, four times, at the positions of a slot.
#[inline(always)]
pub(crate) fn nibble(byte: u8, bit: u32, slot: usize) -> u64
    requires bits { bit < 8 }
    requires slots { slot < 16 }
    ensures { result ≡ nibble byte bit slot }
{
    let one = (byte >> bit & 1) as u64;
    one * 15 << (4 * slot)
}

/// Adds a byte to what a slot of each of the four blocks holds.
fn put(planes: &mut [u64; 8], byte: u8, slot: usize)
    requires { slot < 16 }
    ensures { planes.new ≡ sums planes.old (nibbles byte slot) }
{
    *planes = [
        planes[0] ^ nibble(byte, 0, slot),
        planes[1] ^ nibble(byte, 1, slot),
        planes[2] ^ nibble(byte, 2, slot),
        planes[3] ^ nibble(byte, 3, slot),
        planes[4] ^ nibble(byte, 4, slot),
        planes[5] ^ nibble(byte, 5, slot),
        planes[6] ^ nibble(byte, 6, slot),
        planes[7] ^ nibble(byte, 7, slot),
    ];
}

/// The planes that hold these bytes in each of their four blocks.
pub(crate) fn spread(turn: usize, bytes: &[u8; 16]) -> [u64; 8]
    requires { turn < 4 }
    ensures { result ≡ spread_words turn bytes.now 16 }
{
    let mut planes = [0u64; 8];
    for index in 0..16 {
        put(&mut planes, bytes[index], slot(turn, index));
    }
    planes
}

/// Vectors with a plane in both of their words.
#[inline(always)]
pub(crate) fn doubled(planes: &[u64; 8]) -> [u64x2; 8]
    ensures { result ≡ joined 8 planes.now planes.now }
{
    [
        u64x2::splat(planes[0]),
        u64x2::splat(planes[1]),
        u64x2::splat(planes[2]),
        u64x2::splat(planes[3]),
        u64x2::splat(planes[4]),
        u64x2::splat(planes[5]),
        u64x2::splat(planes[6]),
        u64x2::splat(planes[7]),
    ]
}

/// The first words of vectors.
pub(crate) fn first(state: [u64x2; 8]) -> [u64; 8]
    ensures { (a b : List ℕ) → state ≡ joined 8 a b → result ≡ map (λ k. slice_index a k) (range_with_len 0 8) }
{
    [
        state[0].to_array()[0],
        state[1].to_array()[0],
        state[2].to_array()[0],
        state[3].to_array()[0],
        state[4].to_array()[0],
        state[5].to_array()[0],
        state[6].to_array()[0],
        state[7].to_array()[0],
    ]
}

/// The second words of vectors.
pub(crate) fn second(state: [u64x2; 8]) -> [u64; 8]
    ensures { (a b : List ℕ) → state ≡ joined 8 a b → result ≡ map (λ k. slice_index b k) (range_with_len 0 8) }
{
    [
        state[0].to_array()[1],
        state[1].to_array()[1],
        state[2].to_array()[1],
        state[3].to_array()[1],
        state[4].to_array()[1],
        state[5].to_array()[1],
        state[6].to_array()[1],
        state[7].to_array()[1],
    ]
}

/// The bit of a word at a position.
#[inline(always)]
fn bit(word: u64, position: usize) -> u8
    requires { position < 64 }
    ensures value { result ≡ bit_at word position }
    ensures small { result < 2 }
{
    (word >> position & 1) as u8
}

/// The byte at a position of the planes.
pub(crate) fn byte(planes: &[u64; 8], position: usize) -> u8
    requires { position < 64 }
    ensures { result ≡ byte_at position planes.now }
{
    let high = bit(planes[6], position) + 2 * bit(planes[7], position);
    let high = bit(planes[4], position) + 2 * (bit(planes[5], position) + 2 * high);
    let high = bit(planes[2], position) + 2 * (bit(planes[3], position) + 2 * high);
    bit(planes[0], position) + 2 * (bit(planes[1], position) + 2 * high)
}

/// A block that planes hold, whose transposition these words are.
pub(crate) fn gather(turn: usize, block: usize, words: &[u64; 8]) -> [u8; 16]
    requires turns { turn < 4 }
    requires even { turn % 2 ≡ 0 }
    requires blocks { block < 4 }
    ensures { (planes : List ℕ) → words.now ≡ transposed_words planes → result ≡ block_in turn block planes }
{
    let a = words[block].to_le_bytes();
    let b = words[block + 4].to_le_bytes();
    if turn == 0 {
        [
            a[0], a[2], a[4], a[6], b[0], b[2], b[4], b[6], a[1], a[3], a[5], a[7], b[1], b[3],
            b[5], b[7],
        ]
    } else {
        [
            a[0], a[3], a[4], a[7], b[0], b[3], b[4], b[7], a[1], a[2], a[5], a[6], b[1], b[2],
            b[5], b[6],
        ]
    }
}
