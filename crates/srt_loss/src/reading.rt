//! Loss lists read from borrowed bytes.

ghost use Rattle.std.specs.Prelude.{◌≡◌, List, [], ◌∷◌, ◌%◌, ◌^◌, ◌<◌, ◌≤◌, length, IfOk, IfErr, IsOkAnd, IfSome, IfNone};
ghost use Rattle.srt_types.specs.Window.{word_of};
ghost use Rattle.srt_types.specs.Runs.{Range, is_requested, span};
ghost use Rattle.srt_loss.specs.Reading.{losses_in, then_those};
ghost use Rattle.srt_loss.specs.Spelling.{Spells, HasFault};
ghost use Rattle.srt_loss.specs.Text.{range_of};

use crate::circle::{number_of, steps};
use srt_types::protocol_limits::RANGE_END;
use srt_types::{Seq31, read_word};
use std::marker::Model;

/// Why bytes are no loss list. `Ragged` is checked first, then the faults from left to right (our choice).
#[derive(Clone, Copy, Debug, PartialEq, Eq)]
pub enum LossFault {
    /// The number of bytes is no multiple of 4.
    Ragged,
    /// A first word of a range (top bit 1) that no last word (top bit 0) follows.
    Dangling,
    /// The distance from the first number of a range to its last, modulo 2^31, is 2^30 or more (our choice).
    Backward,
}

/// A well-formed loss list. It borrows its bytes.
#[derive(Debug, Drop)]
pub struct LossRef<'a> {
    bytes: &'a [u8],
}

// The value is the list of ranges, in order.
impl<'a> Model for LossRef<'a> {
    ghost use Rattle.std.specs.Prelude.{List, [], IsOk};
    ghost use Rattle.std.specs.Result.{result_unwrap_or};
    ghost use Rattle.srt_types.specs.Runs.{Range};
    ghost use Rattle.srt_loss.specs.Reading.{losses_in};

    ghost Value = { List Range };

    ghost view = { λ losses. result_unwrap_or (losses_in losses.bytes.now) [] };

    ghost invariant = { λ losses. IsOk (losses_in losses.bytes.now) };
}

/// An iterator over the ranges of a loss list. It borrows the list's bytes.
#[derive(Debug, Drop)]
pub struct Ranges<'a> {
    bytes: &'a [u8],
}

// The value is the list of the remaining ranges, in order.
impl<'a> Model for Ranges<'a> {
    ghost use Rattle.std.specs.Prelude.{List, [], IsOk};
    ghost use Rattle.std.specs.Result.{result_unwrap_or};
    ghost use Rattle.srt_types.specs.Runs.{Range};
    ghost use Rattle.srt_loss.specs.Reading.{losses_in};

    ghost Value = { List Range };

    ghost view = { λ ranges. result_unwrap_or (losses_in ranges.bytes.now) [] };

    ghost invariant = { λ ranges. IsOk (losses_in ranges.bytes.now) };
}

/// The first range of a text, and the text after it.
#[derive(Clone, Copy)]
struct Front<'a> {
    range: (Seq31, Seq31),
    rest: &'a [u8],
}

/// Reads the range at the front of a text. A single number is a range of one number.
fn read_front(text: &[u8]) -> Result<Front<'_>, LossFault>
    requires some { 4 ≤ length text.now }
    requires whole { length text.now % 4 ≡ 0 }
    ensures ok { IfOk result (λ f. losses_in text.now ≡ then_those (range_of f.range) (losses_in f.rest.now)) }
    ensures whole { IfOk result (λ f. length f.rest.now % 4 ≡ 0) }
    ensures shorter { IfOk result (λ f. length f.rest.now < length text.now) }
    ensures near { IfOk result (λ f. span (range_of f.range) < 2 ^ 30) }
    ensures err { IfErr result (λ fault. losses_in text.now ≡ Err fault) }
{
    let word = read_word(text, 0);
    let first = number_of(word);
    if word < 1 << 31 {
        return Ok(Front {
            range: (first, first),
            rest: &text[4..],
        });
    }
    if text.len() < 8 {
        return Err(LossFault::Dangling);
    }
    let end = read_word(text, 4);
    if end >= 1 << 31 {
        return Err(LossFault::Dangling);
    }
    let last = number_of(end);
    if steps(first, last) >= RANGE_END {
        return Err(LossFault::Backward);
    }
    Ok(Front {
        range: (first, last),
        rest: &text[8..],
    })
}

/// Reads a loss list. Zero bytes are the empty list. Ranges may overlap and have any order. Linear in the number of
/// bytes; copies nothing.
pub fn read(bytes: &[u8]) -> Result<LossRef<'_>, LossFault>
    ensures value { result ≡ losses_in bytes.now }
    // The bytes encode the returned list.
    ensures found { IfOk result (λ losses. Spells bytes.now losses) }
    // A list that the bytes encode is returned.
    ensures only { (ranges : List Range) → Spells bytes.now ranges → IsOkAnd result (λ losses. losses ≡ ranges) }
    // The fault is the first one.
    ensures fault { IfErr result (λ fault. HasFault bytes.now fault) }
{
    if bytes.len() % 4 != 0 {
        return Err(LossFault::Ragged);
    }
    let mut rest = bytes;
    while !rest.is_empty() {
        rest = read_front(rest)?.rest;
    }
    Ok(LossRef { bytes })
}

impl<'a> LossRef<'a> {
    /// Whether one of the ranges contains the number. Linear in the number of ranges, whatever their lengths.
    pub fn asks(&self, number: Seq31) -> bool
        ensures { result ≡ is_requested self.now (word_of number) }
    {
        let mut ranges = self.ranges();
        while let Some((first, last)) = ranges.next_range() {
            if steps(first, number) <= steps(first, last) {
                return true;
            }
        }
        false
    }

    /// Returns an iterator over all ranges, in the order of the list. O(1).
    pub fn ranges(&self) -> Ranges<'a>
        ensures { result ≡ self.now }
    {
        Ranges { bytes: self.bytes }
    }
}

impl Ranges<'_> {
    /// Returns the next range: its first and last number, both included, fewer than 2^30 apart. They are equal in a
    /// range of one number. The last can be below the first, since numbers wrap. None at the end of the list. O(1).
    pub fn next_range(&mut self) -> Option<(Seq31, Seq31)>
        ensures some { IfSome result (λ r. self.old ≡ range_of r ∷ self.new) }
        ensures near { IfSome result (λ r. span (range_of r) < 2 ^ 30) }
        ensures none { IfNone result ((self.old ≡ []) × (self.new ≡ [])) }
    {
        if self.bytes.is_empty() {
            return None;
        }
        match read_front(self.bytes) {
            Ok(front) => {
                self.bytes = front.rest;
                Some(front.range)
            }
            Err(_) => None,
        }
    }
}
