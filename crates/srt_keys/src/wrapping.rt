//! The AES key wrap (RFC 3394).

ghost use Rattle.std.specs.Prelude.{◌≡◌, ◌<◌, ◌≤◌, ◌+◌, ◌*◌, ◌/◌, ◌%◌, ◌++◌, length, take, drop, bit_xor, option_map, IfSome, IfNone};
ghost use lib.Lanes.{zip2};
ghost use Rattle.srt_aes.specs.Aes.{IsKeyLength};
ghost use Rattle.srt_aes.specs.Keys.{key_of};
ghost use Rattle.std.specs.Int.{w64, to_be_bytes};
ghost use Rattle.std.specs.Str.{bytes_eq};
ghost use Rattle.srt_keys.specs.Wrap.{initial_value, wrap_step, wrap_after, wrap, unwrap_step, unwrap_after, unwrapped, unwrap};

use srt_aes::{RoundKeys, add_bytes};

/// The maximum size of a text to be wrapped, in bytes: two keys of 32 bytes.
pub const MAX_UNWRAPPED: usize = 64;

/// The maximum size of a wrapped text, in bytes: its check value has 8.
pub const MAX_WRAPPED: usize = MAX_UNWRAPPED + 8;

/// Eight bytes in the order of a 64-bit block, with the number of a step added to them bit by bit.
fn counted(block: &[u8], count: usize) -> [u8; 8]
    requires { length block.now ≡ 8 }
    ensures { result ≡ zip2 bit_xor block.now (to_be_bytes w64 count) }
{
    let mut sum = [0u8; 8];
    sum.copy_from_slice(block);
    add_bytes(&mut sum, &(count as u64).to_be_bytes());
    sum
}

/// Two 64-bit blocks as one of 128 bits.
fn paired(first: &[u8], second: &[u8]) -> [u8; 16]
    requires first { length first.now ≡ 8 }
    requires second { length second.now ≡ 8 }
    ensures { result ≡ first.now ++ second.now }
{
    let mut pair = [0u8; 16];
    pair[..8].copy_from_slice(first);
    pair[8..].copy_from_slice(second);
    pair
}

/// Puts a 64-bit block at the offset `at`.
fn put(state: &mut [u8], at: usize, block: &[u8])
    requires whole { length block.now ≡ 8 }
    requires room { at + 8 ≤ length state.old }
    ensures { state.new ≡ take at state.old ++ block.now ++ drop (at + 8) state.old }
{
    state[at..at + 8].copy_from_slice(block);
}

/// The second 64-bit block of one of 128 bits.
fn second_half(block: &[u8; 16]) -> &[u8]
    ensures half { result.now ≡ drop 8 block.now }
    ensures long { length result.now ≡ 8 }
{
    &block[8..]
}

/// Step `count` of wrapping, which is about block `index`, 1 for the first of the text.
fn close_block(key: &RoundKeys, state: &mut [u8], index: usize, count: usize)
    requires key { IsKeyLength (length (key_of key.now)) }
    requires some { 1 ≤ index }
    requires within { 8 * index + 8 ≤ length state.old }
    ensures step { state.new ≡ wrap_step (key_of key.now) state.old index count }
    ensures long { length state.new ≡ length state.old }
{
    let at = 8 * index;
    let before = &state[..];
    let pair = paired(&before[..8], &before[at..at + 8]);
    let closed = key.encrypt(&pair);
    put(state, at, second_half(&closed));
    put(state, 0, &counted(&closed[..8], count));
}

/// All steps of wrapping a text of `blocks` blocks, which stands behind the initial value.
fn close_blocks(key: &RoundKeys, state: &mut [u8], blocks: usize)
    requires key { IsKeyLength (length (key_of key.now)) }
    requires whole { length state.old ≡ 8 * blocks + 8 }
    requires few { blocks ≤ 8 }
    ensures steps { state.new ≡ wrap_after (key_of key.now) state.old blocks (6 * blocks) }
{
    for step in 0..6 * blocks {
        close_block(key, state, step % blocks + 1, step + 1);
    }
}

/// Step `count` of unwrapping, which is about block `index`, 1 for the first of the text.
fn open_block(key: &RoundKeys, state: &mut [u8], index: usize, count: usize)
    requires key { IsKeyLength (length (key_of key.now)) }
    requires some { 1 ≤ index }
    requires within { 8 * index + 8 ≤ length state.old }
    ensures step { state.new ≡ unwrap_step (key_of key.now) state.old index count }
    ensures long { length state.new ≡ length state.old }
{
    let at = 8 * index;
    let check = counted(&state[..8], count);
    let pair = paired(&check, &state[at..at + 8]);
    let opened = key.decrypt(&pair);
    put(state, at, second_half(&opened));
    put(state, 0, &opened[..8]);
}

/// All steps of unwrapping a text of `blocks` blocks, which stands behind its check value.
fn open_blocks(key: &RoundKeys, state: &mut [u8], blocks: usize)
    requires key { IsKeyLength (length (key_of key.now)) }
    requires whole { length state.old ≡ 8 * blocks + 8 }
    requires few { blocks ≤ 8 }
    ensures steps { state.new ≡ unwrap_after (key_of key.now) state.old blocks (6 * blocks) (6 * blocks) }
    ensures long { length state.new ≡ length state.old }
{
    let all = 6 * blocks;
    for step in 0..all {
        open_block(key, state, (all - step - 1) % blocks + 1, all - step);
    }
}

/// The wrap of a text of whole 64-bit blocks, at most eight: the first bytes, 8 more than the text has.
pub fn wrap(key: &RoundKeys, text: &[u8]) -> [u8; MAX_WRAPPED]
    requires key { IsKeyLength (length (key_of key.now)) }
    requires whole { length text.now % 8 ≡ 0 }
    requires few { length text.now ≤ 64 }
    ensures { take (length text.now + 8) result ≡ wrap (key_of key.now) text.now }
{
    let mut state = [0xa6u8; MAX_WRAPPED];
    let end = text.len() + 8;
    state[8..end].copy_from_slice(text);
    close_blocks(key, &mut state[..end], text.len() / 8);
    state
}

/// What unwrapping makes of a wrapped text, in the first bytes: the check value, and the text behind it.
fn opened(key: &RoundKeys, wrapped: &[u8]) -> [u8; MAX_WRAPPED]
    requires key { IsKeyLength (length (key_of key.now)) }
    requires whole { length wrapped.now % 8 ≡ 0 }
    requires some { 8 ≤ length wrapped.now }
    requires few { length wrapped.now ≤ 72 }
    ensures steps { take (length wrapped.now) result ≡ unwrapped (key_of key.now) wrapped.now }
    ensures long { length result ≡ 72 }
{
    let mut state = [0u8; MAX_WRAPPED];
    let end = wrapped.len();
    state[..end].copy_from_slice(wrapped);
    open_blocks(key, &mut state[..end], end / 8 - 1);
    state
}

/// Whether the check value is the initial value.
fn has_initial_value(state: &[u8; MAX_WRAPPED]) -> bool
    ensures { result ≡ bytes_eq (take 8 state.now) initial_value }
{
    state[..8] == [0xa6; 8]
}

/// Writes the text that was wrapped to the front of `out`, and returns its length in bytes: 8 less than the wrapped one
/// has. None if the key is another, or if the wrapped text was changed: the initial value that comes out is wrong, and
/// nothing is written. The wrapped text has whole 64-bit blocks, one to nine.
pub fn unwrap(key: &RoundKeys, wrapped: &[u8], out: &mut [u8; MAX_UNWRAPPED]) -> Option<usize>
    requires key { IsKeyLength (length (key_of key.now)) }
    requires whole { length wrapped.now % 8 ≡ 0 }
    requires some { 8 ≤ length wrapped.now }
    requires few { length wrapped.now ≤ 72 }
    ensures value { option_map (λ n. take n out.new) result ≡ unwrap (key_of key.now) wrapped.now }
    ensures end { IfSome result (λ n. n + 8 ≡ length wrapped.now) }
    ensures kept { IfSome result (λ n. drop n out.new ≡ drop n out.old) }
    ensures none { IfNone result (out.new ≡ out.old) }
{
    let end = wrapped.len();
    let state = opened(key, wrapped);
    if has_initial_value(&state) {
        out[..end - 8].copy_from_slice(&state[8..end]);
        Some(end - 8)
    } else {
        None
    }
}
