//! Texts in parts: the lines of a text, the words of a line.

ghost use Rattle.std.specs.Prelude.{◌≡◌, ◌∷◌, ◌<◌, length, IfSome};
ghost use Rattle.std.specs.Option.{option_copied};
ghost use Rattle.srt_procfs.specs.Parts.{parts_of, parts_behind, behind_key, passed, word_at};

use memchr::memchr;

/// A text split at the first byte of a kind.
#[derive(Clone, Copy)]
pub(crate) struct SplitText<'a> {
    /// The bytes before that byte.
    pub(crate) part: &'a [u8],
    /// The bytes after it, if there is one.
    pub(crate) rest: Option<&'a [u8]>,
}

/// Splits a text at the first byte of this value. Linear in the length of the part before it.
pub(crate) fn split_at(separator: u8, text: &[u8]) -> SplitText<'_>
    ensures parts { parts_of separator text.now ≡ result.part.now ∷ parts_behind separator (option_copied result.rest) }
    ensures shorter { IfSome result.rest (λ t. length t.now < length text.now) }
{
    match memchr(separator, text) {
        Some(at) => SplitText {
            part: &text[..at],
            rest: Some(&text[at + 1..]),
        },
        None => SplitText {
            part: text,
            rest: None,
        },
    }
}

/// What follows this key in the first line that begins with it; None if no line does. Linear in the length of the text.
#[tactic(auto, using(crate::proofs::Turns::key_found, crate::proofs::Turns::key_passed))]
pub(crate) fn behind_key<'a>(key: &[u8], text: &'a [u8]) -> Option<&'a [u8]>
    ensures { option_copied result ≡ behind_key key.now (parts_of 10 text.now) }
{
    let mut left = text;
    loop {
        let SplitText { part, rest } = split_at(b'\n', left);
        if let Some(value) = part.strip_prefix(key) {
            return Some(value);
        }
        match rest {
            Some(rest) => left = rest,
            None => return None,
        }
    }
}

/// How many words are still before the one that is looked for, after this part. None if the part is that word.
fn passed(before: usize, part: &[u8]) -> Option<usize>
    ensures { result ≡ passed before part.now }
{
    if part.is_empty() {
        return Some(before);
    }
    if before == 0 {
        return None;
    }
    Some(before - 1)
}

/// The word of a line at this index, counted from 0. Words have spaces between them, one or more. None if there are
/// fewer. Linear in the length of the line.
#[tactic(auto, using(crate::proofs::Turns::word_found, crate::proofs::Turns::word_passed))]
pub(crate) fn word_at(index: usize, line: &[u8]) -> Option<&[u8]>
    ensures { option_copied result ≡ word_at index (parts_of 32 line.now) }
{
    let mut left = line;
    let mut before = index;
    loop {
        let SplitText { part, rest } = split_at(b' ', left);
        match passed(before, part) {
            Some(fewer) => before = fewer,
            None => return Some(part),
        }
        match rest {
            Some(rest) => left = rest,
            None => return None,
        }
    }
}
