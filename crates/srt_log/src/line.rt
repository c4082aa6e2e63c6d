//! A line while it is made.

ghost use Rattle.std.specs.Prelude.{◌≡◌, ◌+◌, ◌≤◌, ◌<◌, ◌++◌, ◌∷◌, [], length, decimal};
ghost use Rattle.std.specs.Char.{digit_char};
ghost use Rattle.std.specs.Fmt.{signed_decimal};
ghost use Rattle.srt_log.specs.Texts.{put, id_text, escaped, escaped_all, readable, readable_all};

use arrayvec::ArrayVec;
use itoa::Buffer;
use srt_types::product_limits::MAX_LOG_LINE;

/// The greatest length of a line's text, in bytes.
const MAX_TEXT: usize = 1023;

/// The text of a line: at most 1,023 bytes.
#[derive(Drop)]
pub(crate) struct Line {
    pub(crate) text: ArrayVec<u8, MAX_LOG_LINE>,
    pub(crate) ghost within: { length text.items ≤ 1023 },
}

/// Puts bytes behind others, where there is room for them.
fn append(text: &mut ArrayVec<u8, MAX_LOG_LINE>, bytes: &[u8])
    requires { length text.old.items + length bytes.now ≤ 1024 }
    ensures { text.new.items ≡ text.old.items ++ bytes.now }
{
    let _ = text.try_extend_from_slice(bytes);
}

impl Line {
    /// A line without text.
    pub(crate) fn new() -> Line
        ensures { result.text.items ≡ [] }
    {
        Line {
            text: ArrayVec::new(),
        }
    }

    /// Puts bytes at its end, as many as there is room for.
    #[tactic(auto, using(crate::proofs::Puts::put_whole, crate::proofs::Puts::put_front, crate::proofs::Puts::front_len))]
    pub(crate) fn put(&mut self, bytes: &[u8])
        ensures { self.new.text.items ≡ put self.old.text.items bytes.now }
    {
        let room = MAX_TEXT - self.text.len();
        if bytes.len() <= room {
            append(&mut self.text, bytes);
        } else {
            append(&mut self.text, &bytes[..room]);
        }
    }

    /// Puts a number in decimal digits.
    pub(crate) fn put_number(&mut self, number: u64)
        ensures { self.new.text.items ≡ put self.old.text.items (decimal number) }
    {
        let mut digits = Buffer::new();
        self.put(digits.format(number).as_bytes());
    }

    /// Puts a number of 32 bits in decimal digits.
    pub(crate) fn put_small(&mut self, number: u32)
        ensures { self.new.text.items ≡ put self.old.text.items (decimal number) }
    {
        self.put_number(u64::from(number));
    }

    /// Puts a number that may be negative in decimal digits.
    pub(crate) fn put_signed(&mut self, number: i128)
        ensures { self.new.text.items ≡ put self.old.text.items (signed_decimal number) }
    {
        let mut digits = Buffer::new();
        self.put(digits.format(number).as_bytes());
    }

    /// Puts a socket ID as eight hexadecimal digits behind `0x`.
    pub(crate) fn put_id(&mut self, id: u32)
        ensures { self.new.text.items ≡ put self.old.text.items (id_text id) }
    {
        self.put(&[
            b'0',
            b'x',
            hex_digit((id / 0x1000_0000 % 16) as u8),
            hex_digit((id / 0x100_0000 % 16) as u8),
            hex_digit((id / 0x10_0000 % 16) as u8),
            hex_digit((id / 0x1_0000 % 16) as u8),
            hex_digit((id / 0x1000 % 16) as u8),
            hex_digit((id / 0x100 % 16) as u8),
            hex_digit((id / 0x10 % 16) as u8),
            hex_digit((id % 16) as u8),
        ]);
    }

    /// Puts a byte that a caller chose: itself if it is a printable character of ASCII other than `"` and `\`, else
    /// `\x` and its two hexadecimal digits.
    fn put_escaped_byte(&mut self, byte: u8)
        ensures { self.new.text.items ≡ put self.old.text.items (escaped byte) }
    {
        if byte >= b' ' && byte <= b'~' && byte != b'"' && byte != b'\\' {
            self.put(&[byte]);
        } else {
            self.put(&[b'\\', b'x', hex_digit(byte / 16), hex_digit(byte % 16)]);
        }
    }

    /// Puts bytes that a caller chose, so that none of them is a control character or ends a text in quotes.
    #[tactic(auto, using(crate::proofs::Puts::put_put, crate::proofs::Puts::one_more))]
    pub(crate) fn put_escaped(&mut self, bytes: &[u8])
        ensures { self.new.text.items ≡ put self.old.text.items (escaped_all bytes.now) }
    {
        self.put(b"");
        for byte in bytes {
            self.put_escaped_byte(*byte);
        }
    }

    /// Puts a byte of a text for people: itself if it is a printable character of ASCII, else `\x` and its two
    /// hexadecimal digits.
    fn put_readable_byte(&mut self, byte: u8)
        ensures { self.new.text.items ≡ put self.old.text.items (readable byte) }
    {
        if byte >= b' ' && byte <= b'~' {
            self.put(&[byte]);
        } else {
            self.put(&[b'\\', b'x', hex_digit(byte / 16), hex_digit(byte % 16)]);
        }
    }

    /// Puts a text for people, so that no byte of it is a control character. Quotation marks and backslashes stay as they
    /// are, since it isn't put in quotes.
    #[tactic(auto, using(crate::proofs::Puts::put_put, crate::proofs::Puts::one_more_readable))]
    pub(crate) fn put_readable(&mut self, bytes: &[u8])
        ensures { self.new.text.items ≡ put self.old.text.items (readable_all bytes.now) }
    {
        self.put(b"");
        for byte in bytes {
            self.put_readable_byte(*byte);
        }
    }

    /// The line without a line feed.
    pub(crate) fn bare(self) -> ArrayVec<u8, MAX_LOG_LINE>
        ensures { result.items ≡ self.text.items }
    {
        self.text
    }

    /// The line with its line feed.
    pub(crate) fn ended(self) -> ArrayVec<u8, MAX_LOG_LINE>
        ensures { result.items ≡ self.text.items ++ 10 ∷ [] }
    {
        let mut text = self.text;
        text.push(b'\n');
        text
    }
}

/// The hexadecimal digit of a number below 16, in lower case.
pub(crate) fn hex_digit(number: u8) -> u8
    requires { number < 16 }
    ensures { result ≡ digit_char number }
{
    if number < 10 {
        b'0' + number
    } else {
        b'a' + (number - 10)
    }
}
