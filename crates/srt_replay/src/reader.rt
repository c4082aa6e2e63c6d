//! A reader that counts its reads, so that a replay ends even if its reader is interrupted forever; and its lines, up to the limits of
//! a tape. A line ends with LF, which the last one may lack.

ghost use Rattle.std.specs.Prelude.{◌≡◌, ◌≢◌, ◌<◌, ◌≤◌, ◌+◌, ◌^◌, [], true, false, IfOk, IfSome, length, take};
ghost use Rattle.std.specs.Io.{StartsWith};
ghost use Rattle.std.specs.Io.BufRead.{Rests, FillKeeps};
ghost use Rattle.srt_replay.specs.Known.{TookPiece, TookOne, TookTapeLine};
ghost use Rattle.srt_replay.specs.Counted.{BroughtBy, MayLook, WasUnread, PieceRead, LineRead, TapeLineRead, source, reads_left, last_brought};
ghost use Rattle.srt_replay.specs.Counted.{left_in, brought_in};
ghost use types.Logic.{sem};

use memchr::memchr;
use srt_types::product_limits::{MAX_TAPE_LINE, MAX_TAPE_LINES};
use srt_types::write_at;
use std::io::{self, BufRead, ErrorKind};

/// The greatest number of reads of one replay.
const MAX_READS: u64 = 1 << 33;

/// The result of the last read.
#[derive(Clone, Copy, Debug, PartialEq, Eq)]
pub enum Brought {
    /// Nothing: no read was made yet, or the last one was interrupted.
    Nothing,
    /// At least one byte.
    Bytes,
    /// The end: there are no more bytes.
    End,
    /// An error other than an interruption.
    Failure,
}

/// The number of reads that are left, and the result of the last one.
#[derive(Drop)]
struct ReadBudget {
    left: u64,
    brought: Brought,
}

/// A reader, the number of reads that are left, and the result of the last one. Nothing else has access to the reader:
/// each call of its `fill_buf` is one read, also an interrupted one. After a failed read, and if no read is left, it
/// isn't called again.
#[derive(Drop)]
pub struct CountedReader<R> {
    reader: R,
    budget: ReadBudget,
}

/// The reader failed, or no read is left.
#[derive(Clone, Copy)]
pub struct ReadFailed;

/// The result of one read. A length is that of the line so far.
#[derive(Clone, Copy)]
pub(crate) enum Piece {
    /// A part of the line, perhaps empty.
    Part(usize),
    /// The rest of the line. Its LF was taken, too.
    Line(usize),
    /// The line is longer than 4096 bytes; this part of it wasn't taken from the reader.
    Long,
    /// There are no more bytes.
    End,
}

/// The result of taking a line.
#[derive(Clone, Copy)]
pub enum Taken {
    /// A line with this length in bytes, without its LF.
    Line(usize),
    /// Nothing; the next line is longer than 4096 bytes.
    Long,
    /// Nothing; there is no further line.
    End,
}

/// The result of taking a line of a tape.
#[derive(Clone, Copy)]
pub(crate) enum TapeLine {
    /// A line with this length in bytes, without its LF.
    Line(usize),
    /// No line of a tape: the next one is longer than 4096 bytes, or comes after 1,000,000 lines.
    Beyond,
    /// Nothing; there is no further line.
    End,
}

/// The result of a read that returned this.
fn brought_by(shown: &io::Result<&[u8]>) -> Brought
    ensures { BroughtBy shown.now result }
{
    match shown {
        Ok(bytes) => {
            if bytes.is_empty() {
                return Brought::End;
            }
            Brought::Bytes
        }
        Err(e) => {
            if e.kind() == ErrorKind::Interrupted {
                return Brought::Nothing;
            }
            Brought::Failure
        }
    }
}

/// One read: returns what the reader has buffered, and notes the result in the budget.
fn look<'a, R: BufRead>(reader: &'a mut R, budget: &mut ReadBudget) -> io::Result<&'a [u8]>
    requires { 0 < left_in budget.old }
    ensures spent { left_in budget.new + 1 ≡ left_in budget.old }
    ensures brought { BroughtBy result (brought_in budget.new) }
    ensures front { IfSome (R.remaining reader.old) (λ xs. IfOk result (λ s. StartsWith xs s.now)) }
    ensures end { IfSome (R.remaining reader.old) (λ xs. IfOk result (λ s. length s.now ≡ 0 → xs ≡ [])) }
    ensures* after_borrow { sem 𝓛 (Rests R.row reader.entry (λ new. FillKeeps (R.remaining reader.old) (R.remaining new) (R.consumable_len new) result)) }
{
    budget.left -= 1;
    let shown = reader.fill_buf();
    budget.brought = brought_by(&shown);
    shown
}

/// Reads once; appends this line's bytes to `line[..len]`.
fn take_piece<R: BufRead>(
    reader: &mut R,
    budget: &mut ReadBudget,
    line: &mut [u8; MAX_TAPE_LINE],
    len: usize,
) -> Result<Piece, ReadFailed>
    requires len { len ≤ 4096 }
    requires left { 0 < left_in budget.old }
    ensures spent { left_in budget.new + 1 ≡ left_in budget.old }
    ensures reads { PieceRead (brought_in budget.new) result }
    ensures took { IfOk result (TookPiece (R.remaining reader.old) (R.remaining reader.new) (take len line.old) line.new) }
{
    let available = match look(reader, budget) {
        Ok(available) => available,
        Err(_) => {
            return match budget.brought {
                Brought::Nothing => Ok(Piece::Part(len)),
                Brought::Bytes | Brought::End | Brought::Failure => Err(ReadFailed),
            };
        }
    };
    match memchr(b'\n', available) {
        Some(end) => {
            if end > MAX_TAPE_LINE - len {
                return Ok(Piece::Long);
            }
            let new_len = write_at(line, len, &available[..end]);
            reader.consume(end + 1);
            Ok(Piece::Line(new_len))
        }
        None => {
            let end = available.len();
            if end == 0 {
                return Ok(Piece::End);
            }
            if end > MAX_TAPE_LINE - len {
                return Ok(Piece::Long);
            }
            let new_len = write_at(line, len, available);
            reader.consume(end);
            Ok(Piece::Part(new_len))
        }
    }
}

impl<R> CountedReader<R> {
    /// A reader with a budget of 2^33 reads, that of a replay.
    pub fn new(reader: R) -> CountedReader<R>
        ensures source { source result ≡ reader }
        ensures left { reads_left result ≡ 2 ^ 33 }
        ensures brought { last_brought result ≡ Brought.Nothing }
    {
        CountedReader::within(reader, MAX_READS)
    }

    /// A reader with a budget of this many reads.
    pub fn within(reader: R, reads: u64) -> CountedReader<R>
        ensures source { source result ≡ reader }
        ensures left { reads_left result ≡ reads }
        ensures brought { last_brought result ≡ Brought.Nothing }
    {
        CountedReader {
            reader,
            budget: ReadBudget {
                left: reads,
                brought: Brought::Nothing,
            },
        }
    }

    /// The number of reads that are left.
    pub fn left(&self) -> u64
        ensures { result ≡ reads_left self.now }
    {
        self.budget.left
    }

    /// The result of the last read.
    pub fn brought(&self) -> Brought
        ensures { result ≡ last_brought self.now }
    {
        self.budget.brought
    }

    /// Whether a read is left, and the last one didn't fail.
    pub(crate) fn may_look(&self) -> bool
        ensures yes { result ≡ true → MayLook self.now }
        ensures no { result ≡ false → WasUnread (reads_left self.now) (last_brought self.now) }
    {
        match self.brought() {
            Brought::Failure => false,
            Brought::Nothing | Brought::Bytes | Brought::End => self.left() > 0,
        }
    }
}

impl<R: BufRead> CountedReader<R> {
    /// Reads once; appends this line's bytes to `line[..len]`.
    pub(crate) fn take_piece(
        &mut self,
        line: &mut [u8; MAX_TAPE_LINE],
        len: usize,
    ) -> Result<Piece, ReadFailed>
        requires len { len ≤ 4096 }
        requires may { MayLook self.old }
        ensures spent { reads_left self.new + 1 ≡ reads_left self.old }
        ensures reads { PieceRead (last_brought self.new) result }
        ensures took { IfOk result (TookPiece (R.remaining (source self.old)) (R.remaining (source self.new)) (take len line.old) line.new) }
    {
        take_piece(&mut self.reader, &mut self.budget, line, len)
    }
}

/// The result if the reader ended after this many bytes of a line.
fn at_end(len: usize) -> Taken
    ensures none { len ≡ 0 → result ≡ Taken.End }
    ensures some { 0 < len → result ≡ Taken.Line len }
{
    if len == 0 {
        Taken::End
    } else {
        Taken::Line(len)
    }
}

/// Reads the next line and writes it to the front of `line`, without its LF. The error is that the reader failed or has no
/// read left; such a reader isn't called again.
pub fn next_line<R: BufRead>(
    reader: &mut CountedReader<R>,
    line: &mut [u8; MAX_TAPE_LINE],
) -> Result<Taken, ReadFailed>
    ensures fewer { reads_left reader.new ≤ reads_left reader.old }
    ensures reads { LineRead (reads_left reader.new) (last_brought reader.new) result }
    ensures took { IfOk result (TookOne (R.remaining (source reader.old)) (R.remaining (source reader.new)) line.new) }
{
    let mut len = 0;
    while reader.may_look() {
        match reader.take_piece(line, len)? {
            Piece::Part(more) => len = more,
            Piece::Line(whole) => return Ok(Taken::Line(whole)),
            Piece::Long => return Ok(Taken::Long),
            Piece::End => return Ok(at_end(len)),
        }
    }
    Err(ReadFailed)
}

/// Reads the next line of a tape, which has this number, counted from 1, as [`next_line`] does, and checks the limits of a tape: its
/// lines have at most 4096 bytes, and it has at most 1,000,000 of them.
pub(crate) fn next_tape_line<R: BufRead>(
    reader: &mut CountedReader<R>,
    line: &mut [u8; MAX_TAPE_LINE],
    number: u32,
) -> Result<TapeLine, ReadFailed>
    ensures fewer { reads_left reader.new ≤ reads_left reader.old }
    ensures reads { TapeLineRead (reads_left reader.new) (last_brought reader.new) result }
    ensures took { IfOk result (TookTapeLine (R.remaining (source reader.old)) (R.remaining (source reader.new)) line.new number) }
{
    match next_line(reader, line) {
        Ok(Taken::Line(len)) => {
            if number > MAX_TAPE_LINES {
                return Ok(TapeLine::Beyond);
            }
            Ok(TapeLine::Line(len))
        }
        Ok(Taken::Long) => Ok(TapeLine::Beyond),
        Ok(Taken::End) => Ok(TapeLine::End),
        Err(fault) => Err(fault),
    }
}
