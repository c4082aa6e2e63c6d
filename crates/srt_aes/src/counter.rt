//! Counter mode as SRT uses it (draft-sharabayko-srt-01).

ghost use Rattle.std.specs.Prelude.{◌≡◌, ◌<◌, ◌≤◌, ◌+◌, ◌-◌, ◌*◌, ◌/◌, ◌%◌, ◌++◌, ◌∷◌, [], ℕ, List, length, take, bit_xor};
ghost use lib.Lanes.{zip2};
ghost use Rattle.srt_aes.specs.Aes.{IsKeyLength};
ghost use Rattle.srt_aes.specs.Counter.{nonce, counter_mode};
ghost use Rattle.srt_aes.specs.Keys.{key_of};
ghost use Rattle.srt_aes.specs.inside.Planes.{joined, sums, counter_planes, block_in, HoldsKey, numbered_stream};
ghost use Rattle.srt_aes.specs.inside.Transposing.{transposed_words};

use crate::keys::RoundKeys;
use crate::planes::{first, gather, nibble, second, spread};
use crate::rounds::close;
use crate::transposing::transposed;
use std::simd::prelude::*;

/// The size of the key stream for one packet, in bytes: 128 blocks, in batches of eight. The largest payload needs 1456.
const KEY_STREAM: usize = 2048;

/// The nonce of a packet, and two zeros where the counter goes.
fn first_block(salt: &[u8; 16], number: u32) -> [u8; 16]
    ensures { result ≡ nonce salt.now number ++ 0 ∷ 0 ∷ [] }
{
    let bytes = number.to_be_bytes();
    [
        salt[0],
        salt[1],
        salt[2],
        salt[3],
        salt[4],
        salt[5],
        salt[6],
        salt[7],
        salt[8],
        salt[9],
        salt[10] ^ bytes[0],
        salt[11] ^ bytes[1],
        salt[12] ^ bytes[2],
        salt[13] ^ bytes[3],
        0,
        0,
    ]
}

/// The planes of four counter blocks, the first of which is a multiple of 4.
#[inline(always)]
fn counted(base: &[u64; 8], first: u8) -> [u64; 8]
    ensures { result ≡ sums base.now (counter_planes first) }
{
    [
        base[0] ^ 0xa000_0000_0000_0000,
        base[1] ^ 0xc000_0000_0000_0000,
        base[2] ^ nibble(first, 2, 15),
        base[3] ^ nibble(first, 3, 15),
        base[4] ^ nibble(first, 4, 15),
        base[5] ^ nibble(first, 5, 15),
        base[6] ^ nibble(first, 6, 15),
        base[7] ^ nibble(first, 7, 15),
    ]
}

/// Vectors of the planes of four blocks and of four more.
#[inline(always)]
fn paired(a: &[u64; 8], b: &[u64; 8]) -> [u64x2; 8]
    ensures { result ≡ joined 8 a.now b.now }
{
    [
        u64x2::from_array([a[0], b[0]]),
        u64x2::from_array([a[1], b[1]]),
        u64x2::from_array([a[2], b[2]]),
        u64x2::from_array([a[3], b[3]]),
        u64x2::from_array([a[4], b[4]]),
        u64x2::from_array([a[5], b[5]]),
        u64x2::from_array([a[6], b[6]]),
        u64x2::from_array([a[7], b[7]]),
    ]
}

/// Copies a block to the offset `at` of a key stream.
fn write_block(stream: &mut [u8; KEY_STREAM], at: usize, block: &[u8; 16])
    requires { at + 16 ≤ 2048 }
    ensures { take (at + 16) stream.new ≡ take at stream.old ++ block.now }
{
    stream[at..at + 16].copy_from_slice(block);
}

/// Copies the four blocks that planes hold, whose transposition these words are, to the offset `at` of a key stream.
fn write_blocks(stream: &mut [u8; KEY_STREAM], at: usize, turn: usize, words: &[u64; 8])
    requires room { at + 64 ≤ 2048 }
    requires turns { turn < 4 }
    requires even { turn % 2 ≡ 0 }
    ensures { (planes : List ℕ) → words.now ≡ transposed_words planes → take (at + 64) stream.new ≡
        take at stream.old ++ block_in turn 0 planes ++ block_in turn 1 planes ++ block_in turn 2 planes ++ block_in turn 3 planes }
{
    let block = gather(turn, 0, words);
    write_block(stream, at, &block);
    let block = gather(turn, 1, words);
    write_block(stream, at + 16, &block);
    let block = gather(turn, 2, words);
    write_block(stream, at + 32, &block);
    let block = gather(turn, 3, words);
    write_block(stream, at + 48, &block);
}

/// Appends eight blocks to a key stream that has `8 * batch` blocks; `base` holds the block with the counter 0.
fn write_batch(stream: &mut [u8; KEY_STREAM], keys: &RoundKeys, base: &[u64; 8], batch: usize)
    requires batches { batch < 16 }
    requires whole { IsKeyLength (length (key_of keys.now)) }
    ensures { (block : List ℕ) → HoldsKey base.now 0 block →
        take (128 * batch) stream.old ≡ numbered_stream (key_of keys.now) block (8 * batch) →
        take (128 * (batch + 1)) stream.new ≡ numbered_stream (key_of keys.now) block (8 * (batch + 1)) }
{
    let last = keys.rounds();
    let from = 8 * batch;
    let low = counted(base, from as u8);
    let high = counted(base, (from + 4) as u8);
    let closed = close(paired(&low, &high), &keys.planes, last);
    let words = transposed(closed);
    write_blocks(stream, 128 * batch, last % 4, &first(words));
    write_blocks(stream, 128 * batch + 64, last % 4, &second(words));
}

/// A key stream of `8 * batches` blocks; `block` is the one with the counter 0.
fn key_stream(keys: &RoundKeys, block: &[u8; 16], batches: usize) -> [u8; KEY_STREAM]
    requires batches { batches ≤ 16 }
    requires whole { IsKeyLength (length (key_of keys.now)) }
    ensures { take (128 * batches) result ≡ numbered_stream (key_of keys.now) block.now (8 * batches) }
{
    let base = spread(0, block);
    let mut stream = [0u8; KEY_STREAM];
    for batch in 0..batches {
        write_batch(&mut stream, keys, &base, batch);
    }
    stream
}

/// Adds the first bytes of `other` to `bytes`, bit by bit.
pub fn add_bytes(bytes: &mut [u8], other: &[u8])
    requires { length bytes.old ≤ length other.now }
    ensures { bytes.new ≡ zip2 bit_xor bytes.old other.now }
{
    for i in 0..bytes.len() {
        bytes[i] ^= other[i];
    }
}

impl RoundKeys {
    /// Encrypts the payload of the packet with a sequence number, or decrypts it, in place. Its time doesn't depend on the key,
    /// the salt or the bytes.
    pub fn apply(&self, salt: &[u8; 16], number: u32, payload: &mut [u8])
        requires whole { IsKeyLength (length (key_of self.now)) }
        requires short { length payload.old < 2032 }
        ensures { payload.new ≡ counter_mode (key_of self.now) salt.now number payload.old }
    {
        let block = first_block(salt, number);
        let stream = key_stream(self, &block, payload.len() / 128 + 1);
        add_bytes(payload, &stream);
    }
}
