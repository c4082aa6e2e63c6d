//! The faults that end a command early. The text of each is the line that is printed for it.

ghost use Rattle.std.specs.Prelude.{◌≡◌};
ghost use Rattle.std.specs.Process.{exit_status};
ghost use Rattle.srt_offline.specs.Ends.{is_printed, status_after, unread_fault, words_fault};

use crate::ending::{PrintedFault, write_end};
use srt_command_line::WordsFault;
use srt_config::{ConfigFault, Unread};
use srt_replay::ReplayFault;
use srt_transcript::TranscriptFault;
use std::io;
use std::process::ExitCode;
use thiserror::Error;

/// Why a command ended early. All yield status 1. All but an output that can't be written, and a tape's line that isn't an
/// event, print one line, their text, on standard output.
#[derive(Debug, Drop, Error)]
pub enum OfflineFault {
    /// A file can't be read, or is larger than its limit.
    #[error("file fault")]
    File,
    /// The configuration has this fault.
    #[error(transparent)]
    Config(ConfigFault),
    /// A replay ended with this fault.
    #[error(transparent)]
    Replay(ReplayFault),
    /// A transcript ended with this fault.
    #[error(transparent)]
    Transcript(TranscriptFault),
    /// Memory was refused.
    #[error("memory")]
    Memory,
    /// The output can't be written. Nothing is printed.
    #[error("output fault")]
    Output,
}

impl OfflineFault {
    /// The fault of a replay that ended with this one.
    pub fn of_replay(fault: ReplayFault) -> OfflineFault
        ensures { result ≡ OfflineFault.Replay fault }
    {
        OfflineFault::Replay(fault)
    }

    /// The fault of a transcript that ended with this one.
    pub fn of_transcript(fault: TranscriptFault) -> OfflineFault
        ensures { result ≡ OfflineFault.Transcript fault }
    {
        OfflineFault::Transcript(fault)
    }

    /// The fault of a file that wasn't read.
    pub fn of_unread(unread: &Unread) -> OfflineFault
        ensures { result ≡ unread_fault unread.now }
    {
        match unread {
            Unread::System(_) | Unread::Large(_) => OfflineFault::File,
            Unread::Memory => OfflineFault::Memory,
        }
    }

    /// The fault of a command line that came to nothing.
    pub fn of_words(fault: WordsFault) -> OfflineFault
        ensures { result ≡ words_fault fault }
    {
        match fault {
            WordsFault::OutOfMemory => OfflineFault::Memory,
            WordsFault::Output => OfflineFault::Output,
        }
    }

    /// Whether the fault's text is printed as a line: not after an output that can't be written, nor after a transcript whose
    /// last line states that the tape's line isn't an event.
    pub fn is_printed(&self) -> bool
        ensures { result ≡ is_printed self.now }
    {
        match self {
            OfflineFault::Output | OfflineFault::Replay(ReplayFault::Write) => false,
            OfflineFault::Transcript(TranscriptFault::NoEvent(_) | TranscriptFault::Write) => false,
            OfflineFault::File
            | OfflineFault::Config(_)
            | OfflineFault::Replay(_)
            | OfflineFault::Transcript(_)
            | OfflineFault::Memory => true,
        }
    }
}

impl PrintedFault for OfflineFault {
    ghost printed = { is_printed };

    fn has_line(&self) -> bool {
        self.is_printed()
    }
}

/// The exit status of a command: 0, or 1 after a fault, whose line is printed on standard output.
pub fn status_of(rt: &impl Print, ended: Result<(), OfflineFault>) -> ExitCode
    ensures { exit_status result ≡ status_after ended }
{
    let ending = write_end(&mut io::writer(rt), ended);
    ending.status
}
