//! Transcripts: each line of a tape, and the line of the output that belongs to it, is read, explained and written.

ghost use Rattle.std.specs.Prelude.{◌≡◌, ℕ, List, ◌+◌, ◌≤◌, Bool, true, false, Option, Some, IfOk, length, take};
ghost use Rattle.srt_replay.specs.Counted.{source, reads_left, last_brought};
ghost use Rattle.srt_replay.specs.Tries.{sink};
ghost use Rattle.srt_replay.specs.declared.reader.Brought.TheVariants.{End as AtEnd};
ghost use Rattle.srt_transcript.specs.declared.transcribing.Explained.{Explained as TheExplained};
ghost use Rattle.srt_transcript.specs.Transcript.{is_event, line_text, answer_text, Transcribes};
ghost use Rattle.srt_transcript.specs.Ends.{TranscriptRead, TranscriptWritten, HasWriteCause};
ghost use Rattle.srt_transcript.specs.inside.Steps.{WordsWritten, IsKind, LineWritten, LineExplained, AnswerExplained, LineRead, AnswerRead};
ghost use Rattle.srt_transcript.specs.inside.Rounds.{Written, EventsTaken, TapeAfter, LineTurned, AnswerTurned, IsWritten, RoundMade};
ghost use Rattle.srt_transcript.specs.inside.Rounds.{HaveEnded, RoundRead, AreBoth};

use crate::answers::put_output;
use crate::events::{put_event, put_long_line, put_no_event};
use crate::lines::{MAX_ENTRY, first_line, write_answer, write_line};
use crate::text::Words;
use srt_replay::{Brought, CountedReader, CountedWriter, Taken, next_line, read_event};
use srt_types::product_limits::{MAX_ROUTES, MAX_TAPE_DATAGRAM, MAX_TAPE_LINE, MAX_TAPE_LINES};
use std::io::{BufRead, Write};
use thiserror::Error;

/// Why a transcript ended early. What was written before stays written. Its text is the line that the program prints, which
/// prints none for `NoEvent` and `Write`.
#[derive(Clone, Copy, Debug, Error, PartialEq, Eq)]
pub enum TranscriptFault {
    /// The tape's line with this number, counted from 1, isn't an event, is longer than 4096 bytes, or comes after 1,000,000
    /// lines. The transcript states so.
    #[error("no event {0}")]
    NoEvent(u32),
    /// The output isn't that of a replay: it has a line of more than 4096 bytes, or more than 1,000,001 lines.
    #[error("file fault")]
    Output,
    /// A reader failed, or its reads were used up before its end.
    #[error("file fault")]
    Read,
    /// The writer failed, took none of the bytes that it was passed, or was interrupted too often.
    #[error("output fault")]
    Write,
}

/// The kind of a tape's next line.
#[derive(Clone, Copy)]
enum Explained {
    /// An event.
    Event,
    /// It isn't an event.
    Other,
    /// There is no further line.
    End,
}

/// Which of the readers have reached their end.
#[derive(Clone, Copy)]
struct Ended {
    tape: bool,
    output: bool,
}

/// What an explanation is made with: a buffer for the line's datagram, the words, and a buffer for the line to write.
#[derive(Drop)]
struct Desk {
    datagram: [u8; MAX_TAPE_DATAGRAM],
    words: Words,
    entry: [u8; MAX_ENTRY],
}

/// What a transcript works with, made once: a buffer for a line, and what its explanation is made with.
#[derive(Drop)]
struct Workspace {
    line: [u8; MAX_TAPE_LINE],
    desk: Desk,
}

fn kind_of(is_event: bool) -> Explained
    ensures { IsKind is_event result }
{
    if is_event {
        Explained::Event
    } else {
        Explained::Other
    }
}

/// Makes the words of the tape's line `number`, which ends with LF if it `has_lf`. Returns whether it is an event.
fn describe(
    line: &[u8],
    number: u32,
    has_lf: bool,
    words: &mut Words,
    datagram: &mut [u8; MAX_TAPE_DATAGRAM],
) -> bool
    ensures kind { result ≡ is_event number line.now }
    ensures short { result ≡ true → number ≤ 1000000 }
{
    words.clear();
    if number > MAX_TAPE_LINES {
        put_no_event(words, line, has_lf);
        return false;
    }
    match read_event(line, MAX_ROUTES, datagram) {
        Some(event) => {
            put_event(words, event, datagram);
            true
        }
        None => {
            put_no_event(words, line, has_lf);
            false
        }
    }
}

/// Writes words as the explanation of the tape's line `number`.
fn write_words<W: Write>(
    writer: &mut CountedWriter<W>,
    entry: &mut [u8; MAX_ENTRY],
    number: u32,
    words: &[u8],
) -> Result<(), TranscriptFault>
    requires { length words.now ≤ 16384 }
    ensures written { WordsWritten (line_text number) (W.contents (sink writer.old)) (W.contents (sink writer.new)) result }
    ensures cause { HasWriteCause writer.new result }
{
    let end = write_line(entry, number, first_line(words));
    match writer.write_bytes(&entry[..end]) {
        Ok(()) => Ok(()),
        Err(_) => Err(TranscriptFault::Write),
    }
}

/// Writes words as the explanation of an output's line.
fn write_reply<W: Write>(
    writer: &mut CountedWriter<W>,
    entry: &mut [u8; MAX_ENTRY],
    words: &[u8],
) -> Result<(), TranscriptFault>
    requires { length words.now ≤ 16384 }
    ensures written { WordsWritten answer_text (W.contents (sink writer.old)) (W.contents (sink writer.new)) result }
    ensures cause { HasWriteCause writer.new result }
{
    let end = write_answer(entry, first_line(words));
    match writer.write_bytes(&entry[..end]) {
        Ok(()) => Ok(()),
        Err(_) => Err(TranscriptFault::Write),
    }
}

/// Explains a line of the tape, which ends with LF if it `has_lf`.
fn explain_line<W: Write>(
    line: &[u8],
    has_lf: bool,
    writer: &mut CountedWriter<W>,
    desk: &mut Desk,
    number: u32,
) -> Result<Explained, TranscriptFault>
    ensures written { LineWritten number line.now (W.contents (sink writer.old)) (W.contents (sink writer.new)) result }
    ensures short { IfOk result (λ explained. explained ≡ Explained.Event → number ≤ 1000000) }
    ensures cause { HasWriteCause writer.new result }
{
    let is_event = describe(line, number, has_lf, &mut desk.words, &mut desk.datagram);
    match write_words(writer, &mut desk.entry, number, desk.words.bytes()) {
        Ok(()) => Ok(kind_of(is_event)),
        Err(fault) => Err(fault),
    }
}

/// Explains a line of the tape that is too long.
fn explain_long<W: Write>(
    writer: &mut CountedWriter<W>,
    desk: &mut Desk,
    number: u32,
) -> Result<(), TranscriptFault>
    ensures written { WordsWritten (line_text number) (W.contents (sink writer.old)) (W.contents (sink writer.new)) result }
    ensures cause { HasWriteCause writer.new result }
{
    desk.words.clear();
    put_long_line(&mut desk.words);
    write_words(writer, &mut desk.entry, number, desk.words.bytes())
}

/// Reads the tape's next line, which has this number, and writes its explanation.
fn explain_next<B: BufRead, W: Write>(
    tape: &mut CountedReader<B>,
    writer: &mut CountedWriter<W>,
    work: &mut Workspace,
    number: u32,
) -> Result<Explained, TranscriptFault>
    ensures fewer { reads_left tape.new ≤ reads_left tape.old }
    ensures reads { LineRead number (reads_left tape.new) (last_brought tape.new) result }
    ensures cause { HasWriteCause writer.new result }
    ensures explained { LineExplained number (B.remaining (source tape.old)) (B.remaining (source tape.new))
        (W.contents (sink writer.old)) (W.contents (sink writer.new)) result }
{
    let len = match next_line(tape, &mut work.line) {
        Ok(Taken::Line(len)) => len,
        Ok(Taken::Long) => {
            return match explain_long(writer, &mut work.desk, number) {
                Ok(()) => Ok(Explained::Other),
                Err(fault) => Err(fault),
            };
        }
        Ok(Taken::End) => return Ok(Explained::End),
        Err(_) => return Err(TranscriptFault::Read),
    };
    // The last line has no LF if the read that ended it showed the tape's end.
    let has_lf = tape.brought() != Brought::End;
    explain_line(&work.line[..len], has_lf, writer, &mut work.desk, number)
}

/// Explains a line of the output.
fn explain_output<W: Write>(
    line: &[u8],
    writer: &mut CountedWriter<W>,
    desk: &mut Desk,
) -> Result<(), TranscriptFault>
    ensures written { WordsWritten answer_text (W.contents (sink writer.old)) (W.contents (sink writer.new)) result }
    ensures cause { HasWriteCause writer.new result }
{
    desk.words.clear();
    put_output(&mut desk.words, line, &mut desk.datagram);
    write_reply(writer, &mut desk.entry, desk.words.bytes())
}

/// Reads the output's next line, which has this number, and writes its explanation. Returns whether there is no further line.
fn explain_answer<B: BufRead, W: Write>(
    output: &mut CountedReader<B>,
    writer: &mut CountedWriter<W>,
    work: &mut Workspace,
    number: u32,
) -> Result<bool, TranscriptFault>
    ensures fewer { reads_left output.new ≤ reads_left output.old }
    ensures reads { AnswerRead number (reads_left output.new) (last_brought output.new) result }
    ensures cause { HasWriteCause writer.new result }
    ensures explained { AnswerExplained number (B.remaining (source output.old)) (B.remaining (source output.new))
        (W.contents (sink writer.old)) (W.contents (sink writer.new)) result }
{
    let len = match next_line(output, &mut work.line) {
        Ok(Taken::Line(len)) => len,
        Ok(Taken::Long) => return Err(TranscriptFault::Output),
        Ok(Taken::End) => return Ok(true),
        Err(_) => return Err(TranscriptFault::Read),
    };
    if number > MAX_TAPE_LINES + 1 {
        return Err(TranscriptFault::Output);
    }
    match explain_output(&work.line[..len], writer, &mut work.desk) {
        Ok(()) => Ok(false),
        Err(fault) => Err(fault),
    }
}

/// Explains the tape's next line, unless the tape has ended.
fn line_turn<B: BufRead, W: Write>(
    tape: &mut CountedReader<B>,
    writer: &mut CountedWriter<W>,
    work: &mut Workspace,
    number: u32,
    has_ended: bool,
) -> Result<Explained, TranscriptFault>
    ensures fewer { reads_left tape.new ≤ reads_left tape.old }
    ensures reads { (has_ended ≡ true → last_brought tape.old ≡ AtEnd) → LineRead number (reads_left tape.new) (last_brought tape.new) result }
    ensures cause { HasWriteCause writer.new result }
    ensures turned { (before : ℕ) (xs ys : List ℕ) (held output_left : Option (List ℕ)) (output_ended : Bool) → number ≡ before + 1
        → Written ys held output_left (W.contents (sink writer.old)) before before output_ended
        (EventsTaken xs (B.remaining (source tape.old)) before has_ended)
        → LineTurned xs ys held (B.remaining (source tape.new)) output_left (W.contents (sink writer.new)) before number output_ended result }
{
    if has_ended {
        return Ok(Explained::End);
    }
    explain_next(tape, writer, work, number)
}

/// Explains the output's next line, unless the output has ended. Returns whether it has.
fn answer_turn<B: BufRead, W: Write>(
    output: &mut CountedReader<B>,
    writer: &mut CountedWriter<W>,
    work: &mut Workspace,
    number: u32,
    has_ended: bool,
) -> Result<bool, TranscriptFault>
    ensures fewer { reads_left output.new ≤ reads_left output.old }
    ensures reads { (has_ended ≡ true → last_brought output.old ≡ AtEnd) → AnswerRead number (reads_left output.new) (last_brought output.new) result }
    ensures cause { HasWriteCause writer.new result }
    ensures turned { (before : ℕ) (xs ys : List ℕ) (held tape_left : Option (List ℕ)) (line : TheExplained) → number ≡ before + 1
        → Written ys held (B.remaining (source output.old)) (W.contents (sink writer.old)) number before has_ended (TapeAfter xs tape_left number line)
        → AnswerTurned ys held (B.remaining (source output.new)) (W.contents (sink writer.new)) number (TapeAfter xs tape_left number line) result }
{
    if has_ended {
        return Ok(true);
    }
    explain_answer(output, writer, work, number)
}

/// Explains the next line of the tape, and that of the output.
fn make_round<T: BufRead, O: BufRead, W: Write>(
    tape: &mut CountedReader<T>,
    output: &mut CountedReader<O>,
    writer: &mut CountedWriter<W>,
    work: &mut Workspace,
    number: u32,
    ended: Ended,
) -> Result<Ended, TranscriptFault>
    ensures tape_reads { reads_left tape.new ≤ reads_left tape.old }
    ensures output_reads { reads_left output.new ≤ reads_left output.old }
    ensures reads { HaveEnded ended (last_brought tape.old) (last_brought output.old)
        → RoundRead number (reads_left tape.new) (last_brought tape.new) (reads_left output.new) (last_brought output.new) result }
    ensures cause { HasWriteCause writer.new result }
    ensures made { (before : ℕ) (xs ys : List ℕ) (held : Option (List ℕ)) → number ≡ before + 1
        → IsWritten xs ys held (T.remaining (source tape.old)) (O.remaining (source output.old)) (W.contents (sink writer.old)) before ended
        → RoundMade xs ys held (T.remaining (source tape.new)) (O.remaining (source output.new)) (W.contents (sink writer.new)) number result }
{
    let line = match line_turn(tape, writer, work, number, ended.tape) {
        Ok(line) => line,
        Err(fault) => return Err(fault),
    };
    let output_ended = match answer_turn(output, writer, work, number, ended.output) {
        Ok(output_ended) => output_ended,
        Err(fault) => return Err(fault),
    };
    match line {
        Explained::Event => Ok(Ended {
            tape: false,
            output: output_ended,
        }),
        Explained::Other => Err(TranscriptFault::NoEvent(number)),
        Explained::End => Ok(Ended {
            tape: true,
            output: output_ended,
        }),
    }
}

/// Whether both readers have reached their end.
fn are_both(ended: Ended) -> bool
    ensures { AreBoth ended result }
{
    if ended.tape {
        return ended.output;
    }
    false
}

/// Explains the lines of both readers.
fn transcribe_lines<T: BufRead, O: BufRead, W: Write>(
    tape: &mut CountedReader<T>,
    output: &mut CountedReader<O>,
    writer: &mut CountedWriter<W>,
    work: &mut Workspace,
) -> Result<(), TranscriptFault>
    ensures tape_reads { reads_left tape.new ≤ reads_left tape.old }
    ensures output_reads { reads_left output.new ≤ reads_left output.old }
    ensures reads { TranscriptRead (reads_left tape.new) (last_brought tape.new) (reads_left output.new) (last_brought output.new) result }
    ensures cause { HasWriteCause writer.new result }
    ensures transcript { Transcribes (T.remaining (source tape.old)) (O.remaining (source output.old))
        (W.contents (sink writer.old)) (W.contents (sink writer.new)) result }
{
    let mut ended = Ended {
        tape: false,
        output: false,
    };
    for before in 0..MAX_TAPE_LINES + 2 {
        ended = match make_round(tape, output, writer, work, before + 1, ended) {
            Ok(ended) => ended,
            Err(fault) => return Err(fault),
        };
        if are_both(ended) {
            return Ok(());
        }
    }
    // A tape ends before the 1,000,001st line, and an output before the line after that.
    unreachable!()
}

/// Writes the transcript of a tape: for each of its lines the number and the event in words, and below it the line of the
/// output with the same number, in words too. Lines of the output that are left after the tape's last one follow. It ends after
/// the first line that isn't an event. Reads and writes are as large as the readers' and the writer's buffers, so pass ones with
/// buffers; each call of a reader counts as a read, also an interrupted one. The writer is flushed at the end, unless it failed.
/// Nothing is allocated. An explanation has at most 16,384 bytes; words that don't fit are left out, which no datagram of a
/// tape leads to. Errors: see [`TranscriptFault`].
pub fn transcribe<T: BufRead, O: BufRead, W: Write>(
    tape: &mut CountedReader<T>,
    output: &mut CountedReader<O>,
    writer: &mut CountedWriter<W>,
) -> Result<(), TranscriptFault>
    ensures tape_reads { reads_left tape.new ≤ reads_left tape.old }
    ensures output_reads { reads_left output.new ≤ reads_left output.old }
    ensures reads { TranscriptRead (reads_left tape.new) (last_brought tape.new) (reads_left output.new) (last_brought output.new) result }
    ensures writes { TranscriptWritten writer.new result }
    // Which lines are explained, in which order and under which numbers, and which is the first that isn't an event.
    ensures transcript { Transcribes (T.remaining (source tape.old)) (O.remaining (source output.old))
        (W.contents (sink writer.old)) (W.contents (sink writer.new)) result }
{
    let mut work = Workspace {
        line: [0; MAX_TAPE_LINE],
        desk: Desk {
            datagram: [0; MAX_TAPE_DATAGRAM],
            words: Words::new(),
            entry: [0; MAX_ENTRY],
        },
    };
    let written = transcribe_lines(tape, output, writer, &mut work);
    if written == Err(TranscriptFault::Write) {
        return written;
    }
    match writer.flush() {
        Ok(()) => written,
        Err(_) => Err(TranscriptFault::Write),
    }
}
