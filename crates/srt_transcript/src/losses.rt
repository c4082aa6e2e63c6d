//! The words of a loss list (draft-sharabayko-srt-01, appendix A), also of one that is malformed.

use crate::text::Words;
use srt_types::read_word;

/// The bits of a sequence number in a word.
pub(crate) const NUMBER: u32 = 0x7fff_ffff;

/// Puts a number, or the range from `first` to it.
fn put_range(words: &mut Words, first: Option<u32>, last: u32) {
    if let Some(first) = first {
        words.put_word(first);
        words.put(b"-");
    }
    words.put_word(last);
}

/// Puts the separator of a list, except before its first item.
fn put_separator(words: &mut Words, is_first: bool) {
    if !is_first {
        words.put(b", ");
    }
}

/// Puts the numbers and ranges of a loss list. A range without its last number ends with a question mark. Bytes after the
/// last whole word are ignored.
pub(crate) fn put_losses(words: &mut Words, list: &[u8]) {
    let mut first = None;
    let mut is_first = true;
    for at in 0..list.len() / 4 {
        let word = read_word(list, 4 * at);
        if first.is_none() && word > NUMBER {
            first = Some(word & NUMBER);
        } else {
            put_separator(words, is_first);
            put_range(words, first, word & NUMBER);
            first = None;
            is_first = false;
        }
    }
    if let Some(first) = first {
        put_separator(words, is_first);
        words.put_word(first);
        words.put(b"-?");
    }
}
