//! Where the lines of a log are written, which calls the writer got, and how many lines found no room there.

ghost use Rattle.std.specs.Prelude.{◌≡◌, ◌≤◌, ◌+◌, true, OnOk, IfErr, IfSome, IfNone};
ghost use Rattle.std.specs.Io.KnownBytes.{Appends, Keeps};
ghost use Rattle.srt_log.specs.Objects.{object_text};
ghost use Rattle.srt_watch.specs.Log.{most, words_at, object_at, line_at, said};
ghost use Rattle.srt_watch.specs.Writes.{is_passing, refused_after, lines_of, GotObject, GotLine, IsFailureOf, HasFailed};

use crate::log::When;
use crate::memory::{WantOfMemory, or_want_of_memory};
use crate::writer_calls::WriterCalls;
use srt_log::{LogEvent, put_object};
use std::alloc::Global;
use std::io::{self, Error, ErrorKind};
use std::mem;

/// Where the lines of a log are written.
#[derive(Drop)]
pub(crate) struct Output<W: Drop> {
    pub(crate) out: W,
    // room for the object of a line
    object: Vec<u8>,
    // lines that there was no room for, and that weren't told as left out since
    refused: u64,
    // the lines that were to be written so far; nothing reads it
    given: u64,
    // how often the writer was called with a line, and how often it was to write what waits in it; nothing reads these
    writes: u64,
    flushes: u64,
}

/// Why a line wasn't written.
#[derive(Drop)]
pub(crate) enum NotWritten {
    /// The writer was called with it, and returned this error.
    ByWriter(Error),
    /// Memory for its object was refused, and the writer wasn't called.
    NoMemory(WantOfMemory),
}

// Whether a write that failed so may succeed later: there was no room for the line, or no memory.
fn is_passing(why: &NotWritten) -> bool
    ensures { result ≡ is_passing why.now }
{
    match why {
        NotWritten::ByWriter(error) => {
            matches!(error.kind(), ErrorKind::WouldBlock | ErrorKind::OutOfMemory)
        }
        NotWritten::NoMemory(_) => true,
    }
}

// The number of lines that the line of an event stands for.
fn lines_of(event: LogEvent<'_>) -> u64
    ensures { result ≡ lines_of event.entry }
{
    match event {
        LogEvent::LeftOut { count } => count,
        _ => 1,
    }
}

// Calls the writer with the line of an event, and counts that.
fn put_words<W: WriterCalls>(
    out: &mut W,
    writes: &mut u64,
    when: When,
    event: LogEvent<'_>,
) -> io::Result<()>
    ensures line { OnOk result (Appends (W.holds out.old) (W.holds out.new) (words_at when.stamp (said event.entry))) }
    ensures failed { IfErr result W.has_failed }
    ensures writes { writes.new ≡ most (writes.old + 1) }
{
    *writes = writes.saturating_add(1);
    out.put_line(when.stamp, event)
}

// Calls the writer with these bytes, and counts that.
fn put_bytes<W: WriterCalls>(out: &mut W, writes: &mut u64, bytes: &[u8]) -> io::Result<()>
    ensures bytes { OnOk result (Appends (W.holds out.old) (W.holds out.new) bytes.now) }
    ensures failed { IfErr result W.has_failed }
    ensures writes { writes.new ≡ most (writes.old + 1) }
{
    *writes = writes.saturating_add(1);
    out.put_bytes(bytes)
}

/// Evidence that nothing waited in a writer, once: a call of it said so. It counts for one wait, and can't be copied.
#[derive(Drop)]
pub(crate) struct Flushed {
    marker: (),
}

// Calls the writer to write what waits in it, and counts that. Returns evidence if nothing waits.
fn flush_once<W: WriterCalls>(out: &mut W, flushes: &mut u64) -> Option<Flushed>
    ensures bytes { Keeps (W.holds out.old) (W.holds out.new) }
    ensures flushed { IfSome result (λ _. W.has_flushed) }
    ensures failed { IfNone result (HasFailed W.has_failed) }
    ensures flushes { flushes.new ≡ most (flushes.old + 1) }
{
    *flushes = flushes.saturating_add(1);
    match out.let_out() {
        Ok(()) => Some(Flushed { marker: () }),
        Err(_) => None,
    }
}

// Makes the object of an event in place of another one, and calls the writer with it. Only if memory for it is refused the writer isn't called.
#[tactic(auto, unfolding(srt_log::specs::Objects::object_text))]
fn put_json<W: WriterCalls>(
    out: &mut W,
    writes: &mut u64,
    object: &mut Vec<u8>,
    when: When,
    event: LogEvent<'_>,
) -> Result<(), NotWritten>
    ensures line { OnOk result (Appends (W.holds out.old) (W.holds out.new) (object_at when.stamp (said event.entry))) }
    ensures failed { IfErr result (IsFailureOf W.has_failed) }
    ensures writes { GotObject result writes.old writes.new }
{
    object.clear();
    if let Err(want) = or_want_of_memory(put_object(object, when.stamp, event)) {
        return Err(NotWritten::NoMemory(want));
    }
    match put_bytes(out, writes, object.as_slice()) {
        Ok(()) => Ok(()),
        Err(error) => Err(NotWritten::ByWriter(error)),
    }
}

impl<W: WriterCalls + Drop> Output<W> {
    /// Returns one that was given no line yet.
    pub(crate) fn new(alloc: Global, out: W) -> Output<W>
        ensures out { result.out ≡ out }
        ensures refused { result.refused ≡ 0 }
    {
        Output {
            out,
            object: Vec::new(alloc),
            refused: 0,
            given: 0,
            writes: 0,
            flushes: 0,
        }
    }

    // Makes the line of an event, and writes it. An error is the writer's, or that memory for an object was refused.
    fn put_line(&mut self, when: When, event: LogEvent<'_>) -> Result<(), NotWritten>
        ensures line { OnOk result (Appends (W.holds self.old.out) (W.holds self.new.out) (line_at when (said event.entry))) }
        ensures failed { IfErr result (IsFailureOf W.has_failed) }
        ensures refused { self.new.refused ≡ self.old.refused }
        ensures given { self.new.given ≡ self.old.given }
        ensures writes { GotLine when.is_json result self.old.writes self.new.writes }
        ensures flushes { self.new.flushes ≡ self.old.flushes }
    {
        if when.is_json {
            return put_json(
                &mut self.out,
                &mut self.writes,
                &mut self.object,
                when,
                event,
            );
        }
        match put_words(&mut self.out, &mut self.writes, when, event) {
            Ok(()) => Ok(()),
            Err(error) => Err(NotWritten::ByWriter(error)),
        }
    }

    // Notes how the write of a line ended that stands for so many. If there was no room for it, or no memory, they are counted; any other
    // failed write is ignored: the gateway continues without a log.
    fn note(&mut self, outcome: &Result<(), NotWritten>, lines: u64)
        ensures out { self.new.out ≡ self.old.out }
        ensures refused { self.new.refused ≡ refused_after outcome.now self.old.refused lines }
        ensures grows { self.old.refused ≤ self.new.refused }
        ensures given { self.new.given ≡ self.old.given }
        ensures calls { (self.new.writes ≡ self.old.writes) × (self.new.flushes ≡ self.old.flushes) }
    {
        if let Err(why) = outcome {
            if is_passing(why) {
                self.refused = self.refused.saturating_add(lines);
            }
        }
    }

    /// Writes the line of an event, and returns how that ended. If there was no room for it now, or no memory, the lines that it stands for
    /// are counted.
    pub(crate) fn write(&mut self, when: When, event: LogEvent<'_>) -> Result<(), NotWritten>
        ensures line { OnOk result (Appends (W.holds self.old.out) (W.holds self.new.out) (line_at when (said event.entry))) }
        ensures failed { IfErr result (IsFailureOf W.has_failed) }
        ensures refused { self.new.refused ≡ refused_after result self.old.refused (lines_of event.entry) }
        ensures grows { self.old.refused ≤ self.new.refused }
        ensures given { self.new.given ≡ most (self.old.given + 1) }
        ensures writes { GotLine when.is_json result self.old.writes self.new.writes }
        ensures flushes { self.new.flushes ≡ self.old.flushes }
    {
        self.given = self.given.saturating_add(1);
        let outcome = self.put_line(when, event);
        self.note(&outcome, lines_of(event));
        outcome
    }

    /// Lets the writer write what waits in it. Returns evidence if nothing waits.
    pub(crate) fn flush(&mut self) -> Option<Flushed>
        ensures bytes { Keeps (W.holds self.old.out) (W.holds self.new.out) }
        ensures flushed { IfSome result (λ _. W.has_flushed) }
        ensures failed { IfNone result (HasFailed W.has_failed) }
        ensures refused { self.new.refused ≡ self.old.refused }
        ensures given { self.new.given ≡ self.old.given }
        ensures flushes { self.new.flushes ≡ most (self.old.flushes + 1) }
    {
        flush_once(&mut self.out, &mut self.flushes)
    }

    /// Returns the number of lines that there was no room for since the last such call.
    pub(crate) fn take_refused(&mut self) -> u64
        ensures result { result ≡ self.old.refused }
        ensures refused { self.new.refused ≡ 0 }
        ensures out { self.new.out ≡ self.old.out }
        ensures given { self.new.given ≡ self.old.given }
        ensures flushes { self.new.flushes ≡ self.old.flushes }
    {
        mem::replace(&mut self.refused, 0)
    }
}
