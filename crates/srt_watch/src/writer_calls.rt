//! The calls of a log's writer, each by a function of a line, whose effect is trusted: the library states nothing of a call that fails. Code that
//! is generic over `WriterCalls` has these facts from its calls alone.

use srt_log::{LogEvent, write_line};
use std::io::{self, Write};

/// A writer that is called for the lines of a log.
pub(crate) trait WriterCalls {
    ghost use Rattle.std.specs.Prelude.{ℕ, List, Option, IfOk, IfErr, OnOk};
    ghost use Rattle.std.specs.Io.KnownBytes.{Appends, Keeps};
    ghost use Rattle.std.specs.declared.io.Error.{Error as TheError};
    ghost use Rattle.srt_watch.specs.Log.{words_at, said};

    /// The bytes that it holds, where they are known.
    ghost holds: { Self → Option (List ℕ) };

    /// What is known once it has written all that waited in it.
    ghost has_flushed: { Type 0 };

    /// What is known once a call of it ended with this error.
    ghost has_failed: { TheError → Type 0 };

    /// Calls it with the line of an event, which has this time in front, if it has one.
    fn put_line(&mut self, stamp: Option<[u8; 24]>, event: LogEvent<'_>) -> io::Result<()>
        ensures line { OnOk result (Appends (holds self.old) (holds self.new) (words_at stamp (said event.entry))) }
        ensures failed { IfErr result has_failed };

    /// Calls it with these bytes.
    fn put_bytes(&mut self, bytes: &[u8]) -> io::Result<()>
        ensures bytes { OnOk result (Appends (holds self.old) (holds self.new) bytes.now) }
        ensures failed { IfErr result has_failed };

    /// Calls it to write what waits in it. An error: something waits.
    fn let_out(&mut self) -> io::Result<()>
        ensures bytes { Keeps (holds self.old) (holds self.new) }
        ensures flushed { IfOk result (λ _. has_flushed) }
        ensures failed { IfErr result has_failed };
}

impl<W: Write> WriterCalls for W {
    ghost holds = { W.contents };

    ghost has_flushed = { Unit {0} };

    ghost has_failed = { λ _. Unit {0} };

    fn put_line(&mut self, stamp: Option<[u8; 24]>, event: LogEvent<'_>) -> io::Result<()> {
        write_line(self, stamp, event)
    }

    fn put_bytes(&mut self, bytes: &[u8]) -> io::Result<()> {
        self.write_all(bytes)
    }

    fn let_out(&mut self) -> io::Result<()> {
        self.flush()
    }
}
