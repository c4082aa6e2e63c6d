//! The first lines of a log: the address of the gateway, and the warnings of its configuration.

ghost use Rattle.std.specs.Prelude.{◌≡◌, [], ◌∷◌, ◌++◌, OnOk, Some, None};
ghost use Rattle.srt_watch.specs.Log.{Logged, said};
ghost use Rattle.srt_watch.specs.FirstLines.{started_said, first_calls, warning_call, warning_calls, unblocked_calls, HasWarned};

use crate::log::{LogWriter, When};
use srt_log::LogEvent;
use std::alloc::{AllocError, Global};
use std::fmt::{Display, InlineText};
use std::io::Write;

/// The greatest length of a warning, in bytes.
const MAX_WARNING: usize = 512;

/// The content of a log's first line, and when the gateway stops by itself.
#[derive(Clone, Copy)]
pub struct Start {
    /// The address of the socket, in the form of a peer's.
    pub ip: [u8; 16],
    /// Its port.
    pub port: u16,
    /// The number of worker threads.
    pub workers: u32,
    /// Whether SIGINT and SIGTERM are blocked. If not, a line states what they do.
    pub is_blocked: bool,
    /// How long the gateway serves callers, in microseconds; `None` if it doesn't stop by itself.
    pub lasts: Option<u64>,
    /// The version of the program.
    pub version: &'static str,
}

/// The content of the first lines, until they are written.
#[derive(Drop)]
pub(crate) struct FirstLines {
    // none once the first line is written
    start: Option<Start>,
    // the warnings of the configuration, until they are written
    warnings: Vec<InlineText<MAX_WARNING>>,
}

impl FirstLines {
    pub(crate) fn new(alloc: Global, start: Start) -> FirstLines
        ensures start { result.start ≡ Some start }
        ensures warnings { result.warnings.items ≡ [] }
    {
        FirstLines {
            start: Some(start),
            warnings: Vec::new(alloc),
        }
    }

    /// Adds a warning of the configuration. Allocates; the only error is out of memory.
    pub(crate) fn warn<D: Display + Drop>(&mut self, warning: D) -> Result<(), AllocError>
        ensures start { self.new.start ≡ self.old.start }
        ensures warnings { OnOk result (HasWarned (D.output warning) self.old.warnings.items self.new.warnings.items) }
    {
        match self.warnings.push(InlineText::of(warning)) {
            Ok(()) => Ok(()),
            Err(_) => Err(AllocError),
        }
    }

    // Writes the warnings, once.
    fn log_warnings<W: Write + Drop>(&mut self, log: &mut LogWriter<W>, when: When)
        ensures start { self.new.start ≡ self.old.start }
        ensures warnings { self.new.warnings.items ≡ [] }
        ensures logged { Logged (W.contents log.old.out.out) (W.contents log.new.out.out) log.old.pace log.new.pace
            (warning_calls when self.old.warnings.items) }
    {
        log_all(log, when, self.warnings.as_slice());
        self.warnings.clear();
    }

    // Writes that signals aren't blocked, unless they are.
    #[tactic(auto, using(crate::proofs::Logging::logged_nothing))]
    fn log_unblocked<W: Write + Drop>(start: Start, log: &mut LogWriter<W>, when: When)
        ensures { Logged (W.contents log.old.out.out) (W.contents log.new.out.out) log.old.pace log.new.pace (unblocked_calls when start.is_blocked) }
    {
        if !start.is_blocked {
            log.append_always(when, LogEvent::Unblocked);
        }
    }

    /// Writes the first lines, once all threads run and all memory is allocated, unless they were written before. `memory`:
    /// that of the process, in bytes.
    #[tactic(auto, using(crate::proofs::Logging::logged_nothing, crate::proofs::Logging::logged_both))]
    pub(crate) fn log<W: Write + Drop>(
        &mut self,
        log: &mut LogWriter<W>,
        when: When,
        routes: u32,
        memory: u64,
    )
        ensures start { self.new.start ≡ None }
        ensures logged { Logged (W.contents log.old.out.out) (W.contents log.new.out.out) log.old.pace log.new.pace
            (first_calls self.old.start self.old.warnings.items when routes memory) }
    {
        let Some(start) = self.start.take() else {
            return;
        };
        log.append_always(when, started(start, routes, memory));
        FirstLines::log_unblocked(start, log, when);
        self.log_warnings(log, when);
    }
}

// Writes these warnings.
#[tactic(auto, using(crate::proofs::Logging::logged_nothing, crate::proofs::Logging::logged_mapped))]
fn log_all<W: Write + Drop>(
    log: &mut LogWriter<W>,
    when: When,
    warnings: &[InlineText<MAX_WARNING>],
)
    ensures { Logged (W.contents log.old.out.out) (W.contents log.new.out.out) log.old.pace log.new.pace (warning_calls when warnings.now) }
{
    for warning in warnings {
        log_warning(log, when, warning);
    }
}

// Writes a warning.
fn log_warning<W: Write + Drop>(
    log: &mut LogWriter<W>,
    when: When,
    warning: &InlineText<MAX_WARNING>,
)
    ensures { Logged (W.contents log.old.out.out) (W.contents log.new.out.out) log.old.pace log.new.pace (warning_call when warning.now ∷ []) }
{
    let warning = warning.as_str().as_bytes();
    log.append_always(when, LogEvent::Warned { warning });
}

// Returns the event that the gateway serves callers.
fn started(start: Start, routes: u32, memory: u64) -> LogEvent<'static>
    ensures { said result ≡ started_said start routes memory }
{
    LogEvent::Started {
        ip: start.ip,
        port: start.port,
        routes,
        workers: start.workers,
        memory,
    }
}
