//! The words of an explanation while they are made.

ghost use Rattle.std.specs.Prelude.{◌≤◌, length};

use arrayvec::ArrayVec;
use itoa::Buffer;
use std::fmt::InlineText;

/// The greatest length of an explanation, in bytes. The longest one, of a handshake with 352 extension blocks without
/// content, has fewer than 10,000.
pub(crate) const MAX_WORDS: usize = 16_384;

/// The most bytes that are shown of a printable text, and of other bytes.
const MAX_PRINTED: usize = 40;

const MAX_DIGITED: usize = 16;

/// The words of an explanation.
#[derive(Drop)]
pub(crate) struct Words {
    bytes: ArrayVec<u8, MAX_WORDS>,
}

/// Whether bytes are a text of printable characters of ASCII, and not empty.
fn is_printable(bytes: &[u8]) -> bool {
    for byte in bytes {
        if *byte < b' ' || *byte > b'~' {
            return false;
        }
    }
    !bytes.is_empty()
}

/// The first bytes, at most `most`.
pub(crate) fn front(bytes: &[u8], most: usize) -> &[u8] {
    if bytes.len() <= most {
        return bytes;
    }
    &bytes[..most]
}

impl Words {
    /// No words.
    pub(crate) fn new() -> Words {
        Words {
            bytes: ArrayVec::new(),
        }
    }

    /// Removes all words.
    pub(crate) fn clear(&mut self) {
        self.bytes.clear();
    }

    /// Returns the bytes of the words.
    pub(crate) fn bytes(&self) -> &[u8]
        ensures { length result.now ≤ 16384 }
    {
        self.bytes.as_slice()
    }

    /// Puts bytes at the end; none of them if there is no room for all.
    pub(crate) fn put(&mut self, bytes: &[u8]) {
        let _ = self.bytes.try_extend_from_slice(bytes);
    }

    /// Puts a number in decimal digits.
    pub(crate) fn put_number(&mut self, number: u64) {
        let mut digits = Buffer::new();
        self.put(digits.format(number).as_bytes());
    }

    /// Puts a word in decimal digits.
    pub(crate) fn put_word(&mut self, word: u32) {
        self.put_number(u64::from(word));
    }

    /// Puts a word in hexadecimal digits, without leading zeros.
    pub(crate) fn put_short_hex(&mut self, word: u32) {
        let digits = InlineText::<8>::of(format_args!("{word:x}"));
        self.put(digits.as_str().as_bytes());
    }

    /// Puts at most 16 bytes in hexadecimal digits, two for each.
    pub(crate) fn put_hex(&mut self, bytes: &[u8]) {
        let mut digits = [0; 2 * MAX_DIGITED];
        let bytes = front(bytes, MAX_DIGITED);
        let end = 2 * bytes.len();
        if end <= digits.len() {
            let _ = hex::encode_to_slice(bytes, &mut digits[..end]);
            self.put(&digits[..end]);
        }
    }

    /// Puts a socket ID or a cookie: eight hexadecimal digits.
    pub(crate) fn put_id(&mut self, id: u32) {
        self.put_hex(&id.to_be_bytes());
    }

    /// Puts a number of bytes.
    pub(crate) fn put_size(&mut self, count: usize) {
        self.put_number(count as u64);
        if count == 1 {
            self.put(b" byte");
        } else {
            self.put(b" bytes");
        }
    }

    /// Puts the first 40 bytes in quotes if all are printable characters of ASCII, else the first 16 in hexadecimal digits.
    /// Two dots follow if there are more.
    pub(crate) fn put_shown(&mut self, bytes: &[u8]) {
        let most = if is_printable(bytes) {
            self.put(b"\"");
            self.put(front(bytes, MAX_PRINTED));
            self.put(b"\"");
            MAX_PRINTED
        } else {
            self.put_hex(bytes);
            MAX_DIGITED
        };
        if bytes.len() > most {
            self.put(b" ..");
        }
    }

    /// Puts a time in seconds, with six decimals.
    pub(crate) fn put_seconds(&mut self, moment: u64) {
        self.put_number(moment / 1_000_000);
        self.put(b".");
        let micros = moment % 1_000_000;
        self.put(&[
            b'0' + (micros / 100_000) as u8,
            b'0' + (micros / 10_000 % 10) as u8,
            b'0' + (micros / 1000 % 10) as u8,
            b'0' + (micros / 100 % 10) as u8,
            b'0' + (micros / 10 % 10) as u8,
            b'0' + (micros % 10) as u8,
        ]);
        self.put(b" s");
    }
}
