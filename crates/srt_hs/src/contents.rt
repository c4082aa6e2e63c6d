//! The contents of the Stream ID block and of the CONGESTION block (draft-sharabayko-srt-01, section 3.2.1).

ghost use Rattle.std.specs.Prelude.{◌≡◌, ℕ, ◌+◌, ◌%◌, ◌<◌, ◌≤◌, ◌++◌, length, take, drop, IfSome, IfNone, option_map};
ghost use Rattle.srt_types.specs.Words.{words_in};
ghost use Rattle.srt_hs.specs.Grammar.{turned_words, without_zeros};
ghost use Rattle.srt_hs.specs.View.{handshake_of, text_of, text_words};

use crate::{CongestionText, HsRef};
use arrayvec::ArrayVec;
use srt_types::protocol_limits::MAX_STREAM_ID;
use srt_types::{read_word, write_at};

/// Writes the bytes to the front of `out`, with each group of four in reverse order, and returns their number.
#[tactic(auto, using(crate::proofs::Groups::turned_step))]
fn turn_words(contents: &[u8], out: &mut [u8]) -> usize
    requires words { length contents.now % 4 ≡ 0 }
    requires room { length contents.now ≤ length out.old }
    ensures end { result ≡ length contents.now }
    ensures written { take result out.new ≡ turned_words contents.now }
    ensures kept { (k : ℕ) → result ≤ k → drop k out.new ≡ drop k out.old }
{
    let mut rest = contents;
    let mut end = 0;
    while !rest.is_empty() {
        end = write_at(out, end, &[rest[3], rest[2], rest[1], rest[0]]);
        rest = &rest[4..];
    }
    end
}

/// Returns the number of bytes before the trailing zeros.
#[tactic(auto, using(crate::proofs::Groups::without_last_zero, crate::proofs::Groups::last_is_other))]
fn len_before_zeros(bytes: &[u8]) -> usize
    ensures within { result ≤ length bytes.now }
    ensures value { take result bytes.now ≡ without_zeros bytes.now }
{
    let mut end = bytes.len();
    while end > 0 && bytes[end - 1] == 0 {
        end -= 1;
    }
    end
}

/// Writes the text of the Stream ID block to the front of `out`, and returns its length in bytes: 0 to 512, without the
/// padding zeros. They are written too; `out` is unchanged after the length of the block. None if there is no such
/// block; then nothing is written. The bytes need not be UTF-8. Linear in the length of the block.
pub fn stream_id(hs: &HsRef<'_>, out: &mut [u8; MAX_STREAM_ID]) -> Option<usize>
    ensures within { IfSome result (λ n. n ≤ 512) }
    ensures value { option_map (λ n. take n out.new) result ≡ (handshake_of hs.now).blocks.stream_id }
    ensures kept { IfSome hs.now.blocks.stream_id (λ s. drop (length s.contents.now) out.new ≡ drop (length s.contents.now) out.old) }
    ensures none { IfNone result (out.new ≡ out.old) }
{
    match hs.blocks.stream_id {
        None => None,
        Some(block) => {
            let end = turn_words(block.contents, out);
            Some(len_before_zeros(&out[..end]))
        }
    }
}

/// Returns the words of at most 12 bytes.
#[tactic(auto, using(crate::proofs::Groups::words_step))]
fn words_of(contents: &[u8]) -> ArrayVec<u32, 3>
    requires words { length contents.now % 4 ≡ 0 }
    requires room { length contents.now ≤ 12 }
    ensures { result.items ≡ words_in contents.now }
{
    let mut words = ArrayVec::new();
    let mut rest = contents;
    while !rest.is_empty() {
        words.push(read_word(rest, 0));
        rest = &rest[4..];
    }
    words
}

/// Returns a copy of the words of the CONGESTION block, unchanged. None if there is no such block.
#[tactic(auto, using(crate::proofs::Groups::first_word))]
pub fn congestion(hs: &HsRef<'_>) -> Option<CongestionText>
    ensures words { option_map text_words result ≡ (handshake_of hs.now).blocks.congestion }
    ensures value { result ≡ text_of (handshake_of hs.now).blocks.congestion }
{
    match hs.blocks.congestion {
        None => None,
        Some(block) => Some(CongestionText {
            first: read_word(block.contents, 0),
            others: words_of(&block.contents[4..]),
        }),
    }
}
