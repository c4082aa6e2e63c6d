//! The line of an explanation.

ghost use Rattle.std.specs.Prelude.{◌≡◌, ◌≤◌, ◌+◌, ◌++◌, length, take};
ghost use Rattle.srt_replay.specs.Known.{NoLf};
ghost use Rattle.srt_transcript.specs.Transcript.{line_text, answer_text};

use itoa::Buffer;
use memchr::memchr;
use srt_types::write_at;

/// The greatest length of an explanation's line, in bytes, with its LF.
pub(crate) const MAX_ENTRY: usize = 16_640;

/// The width of the column of a line's number.
const NUMBER_WIDTH: usize = 7;

/// The bytes before the first LF.
pub(crate) fn first_line(bytes: &[u8]) -> &[u8]
    ensures inside { NoLf result.now }
    ensures within { length result.now ≤ length bytes.now }
{
    match memchr(b'\n', bytes) {
        Some(end) => &bytes[..end],
        None => bytes,
    }
}

/// Writes the explanation of the tape's line `number` to the front of `out`: the number in seven columns and the words.
/// Returns its length.
pub(crate) fn write_line(out: &mut [u8; MAX_ENTRY], number: u32, words: &[u8]) -> usize
    requires { length words.now ≤ 16384 }
    ensures within { result ≤ 16640 }
    ensures text { take result out.new ≡ line_text number words.now }
{
    let mut buffer = Buffer::new();
    let digits = buffer.format(number).as_bytes();
    let spaces = NUMBER_WIDTH.saturating_sub(digits.len());
    let end = write_at(out, 0, &[b' '; NUMBER_WIDTH][..spaces]);
    let end = write_at(out, end, digits);
    let end = write_at(out, end, b"  ");
    let end = write_at(out, end, words);
    write_at(out, end, b"\n")
}

/// Writes the explanation of an output's line to the front of `out`. Returns its length.
pub(crate) fn write_answer(out: &mut [u8; MAX_ENTRY], words: &[u8]) -> usize
    requires { length words.now ≤ 16384 }
    ensures within { result ≤ 16640 }
    ensures text { take result out.new ≡ answer_text words.now }
{
    let end = write_at(out, 0, b"           = ");
    let end = write_at(out, end, words);
    write_at(out, end, b"\n")
}
