//! A writer that counts its tries, so that a replay ends even if its writer is interrupted forever.

ghost use Rattle.std.specs.Prelude.{◌≡◌, ℕ, ◌+◌, ◌<◌, ◌^◌, OnOk, OnErr, take};
ghost use Rattle.std.specs.Io.{WritesAtMost};
ghost use Rattle.std.specs.Io.KnownBytes.{Keeps, WriteAppends};
ghost use Rattle.srt_replay.specs.Known.{Wrote};
ghost use Rattle.srt_replay.specs.Tries.{IsOutcomeOfWrite, IsOutcomeOfFlush, WasGivenUp, IsUnwritten, sink, last_try, made_in, last_in};

use std::io::{self, ErrorKind, Write};

/// The greatest number of tries to write one text, and to flush.
const MAX_TRIES: u64 = 1 << 33;

/// The result of the last try to write or to flush.
#[derive(Clone, Copy, Debug, PartialEq, Eq)]
pub enum Tried {
    /// Nothing: no try was made yet, or the last one was interrupted.
    Nothing,
    /// At least one byte was taken.
    Bytes,
    /// None of the bytes was taken.
    NoBytes,
    /// The flush is done.
    Flushed,
    /// An error other than an interruption.
    Failure,
}

/// The number of tries for the last text or the last flush, and the result of the last try.
#[derive(Drop)]
struct TryNote {
    made: u64,
    last: Tried,
}

/// A writer, the number of tries for the last text or the last flush, and the result of the last try. Nothing else has
/// access to the writer.
#[derive(Drop)]
pub struct CountedWriter<W> {
    writer: W,
    note: TryNote,
}

/// The writer failed, took none of the bytes, or was interrupted too often.
#[derive(Clone, Copy)]
pub struct WriteFailed;

/// The result of a write that returned this.
fn outcome_of_write(written: &io::Result<usize>) -> Tried
    ensures { IsOutcomeOfWrite written.now result }
{
    match written {
        Ok(0) => Tried::NoBytes,
        Ok(_) => Tried::Bytes,
        Err(e) => {
            if e.kind() == ErrorKind::Interrupted {
                return Tried::Nothing;
            }
            Tried::Failure
        }
    }
}

/// The result of a flush that returned this.
fn outcome_of_flush(flushed: &io::Result<()>) -> Tried
    ensures { IsOutcomeOfFlush flushed.now result }
{
    match flushed {
        Ok(()) => Tried::Flushed,
        Err(e) => {
            if e.kind() == ErrorKind::Interrupted {
                return Tried::Nothing;
            }
            Tried::Failure
        }
    }
}

/// One try to write: the writer takes a prefix of the bytes. The result is noted.
fn try_write<W: Write>(writer: &mut W, note: &mut TryNote, bytes: &[u8]) -> io::Result<usize>
    requires { made_in note.old < 2 ^ 33 }
    ensures made { made_in note.new ≡ made_in note.old + 1 }
    ensures outcome { IsOutcomeOfWrite result (last_in note.new) }
    ensures bound { WritesAtMost result bytes.now }
    ensures bytes { WriteAppends (W.contents writer.old) (W.contents writer.new) result bytes.now }
{
    note.made += 1;
    let written = writer.write(bytes);
    note.last = outcome_of_write(&written);
    written
}

/// One try to flush. The result is noted.
fn try_flush<W: Write>(writer: &mut W, note: &mut TryNote) -> io::Result<()>
    requires { made_in note.old < 2 ^ 33 }
    ensures made { made_in note.new ≡ made_in note.old + 1 }
    ensures outcome { IsOutcomeOfFlush result (last_in note.new) }
    ensures bytes { Keeps (W.contents writer.old) (W.contents writer.new) }
{
    note.made += 1;
    let flushed = writer.flush();
    note.last = outcome_of_flush(&flushed);
    flushed
}

/// Writes all bytes, or a prefix of them if the writer fails. An interrupted write is tried again, up to 2^33 tries.
fn write_bytes<W: Write>(
    writer: &mut W,
    note: &mut TryNote,
    bytes: &[u8],
) -> Result<(), WriteFailed>
    ensures ok { OnOk result (Wrote (W.contents writer.old) (W.contents writer.new) bytes.now) }
    ensures err { OnErr result ((n : ℕ) × Wrote (W.contents writer.old) (W.contents writer.new) (take n bytes.now)) }
    ensures cause { OnErr result (WasGivenUp note.new) }
{
    note.made = 0;
    let mut at = 0;
    while note.made < MAX_TRIES {
        if at >= bytes.len() {
            return Ok(());
        }
        match try_write(writer, note, &bytes[at..]) {
            Ok(0) => return Err(WriteFailed),
            Ok(n) => at += n,
            Err(_) => match note.last {
                Tried::Nothing => {}
                Tried::Bytes | Tried::NoBytes | Tried::Flushed | Tried::Failure => {
                    return Err(WriteFailed);
                }
            },
        }
    }
    Err(WriteFailed)
}

/// Flushes the writer. An interrupted flush is tried again, up to 2^33 tries.
fn flush<W: Write>(writer: &mut W, note: &mut TryNote) -> Result<(), WriteFailed>
    ensures bytes { Keeps (W.contents writer.old) (W.contents writer.new) }
    ensures ok { OnOk result (last_in note.new ≡ Tried.Flushed) }
    ensures cause { OnErr result (WasGivenUp note.new) }
{
    note.made = 0;
    while note.made < MAX_TRIES {
        match try_flush(writer, note) {
            Ok(()) => return Ok(()),
            Err(_) => match note.last {
                Tried::Nothing => {}
                Tried::Bytes | Tried::NoBytes | Tried::Flushed | Tried::Failure => {
                    return Err(WriteFailed);
                }
            },
        }
    }
    Err(WriteFailed)
}

impl<W> CountedWriter<W> {
    /// A counted writer without tries so far.
    pub fn new(writer: W) -> CountedWriter<W>
        ensures sink { sink result ≡ writer }
        ensures last { last_try result ≡ Tried.Nothing }
    {
        CountedWriter {
            writer,
            note: TryNote {
                made: 0,
                last: Tried::Nothing,
            },
        }
    }

    /// The writer.
    pub fn get_ref(&self) -> &W
        ensures { result.now ≡ sink self.now }
    {
        &self.writer
    }

    /// The result of the last try.
    pub fn tried(&self) -> Tried
        ensures { result ≡ last_try self.now }
    {
        self.note.last
    }
}

impl<W: Write> CountedWriter<W> {
    /// Writes all bytes, or a prefix of them if the writer fails. An interrupted write is tried again, up to 2^33 tries.
    pub fn write_bytes(&mut self, bytes: &[u8]) -> Result<(), WriteFailed>
        ensures ok { OnOk result (Wrote (W.contents (sink self.old)) (W.contents (sink self.new)) bytes.now) }
        ensures err { OnErr result ((n : ℕ) × Wrote (W.contents (sink self.old)) (W.contents (sink self.new)) (take n bytes.now)) }
        ensures cause { OnErr result (IsUnwritten self.new) }
    {
        write_bytes(&mut self.writer, &mut self.note, bytes)
    }

    /// Flushes the writer. An interrupted flush is tried again, up to 2^33 tries.
    pub fn flush(&mut self) -> Result<(), WriteFailed>
        ensures bytes { Keeps (W.contents (sink self.old)) (W.contents (sink self.new)) }
        ensures ok { OnOk result (last_try self.new ≡ Tried.Flushed) }
        ensures cause { OnErr result (IsUnwritten self.new) }
    {
        flush(&mut self.writer, &mut self.note)
    }
}
