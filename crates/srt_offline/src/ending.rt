//! The end of a command: the line of its fault, and the exit status.

ghost use Rattle.std.specs.Prelude.{◌≡◌, OnOk};
ghost use Rattle.std.specs.Process.{exit_status};
ghost use Rattle.srt_offline.specs.Ends.{Prints, PrintsEnd, status_after};

use std::fmt::Display;
use std::io::{self, Write};
use std::process::ExitCode;

/// A fault that ends a command. Its text is the line that is printed for it, if it has one.
pub trait PrintedFault {
    ghost use Rattle.std.specs.Prelude.{Bool};

    /// Whether a line is printed for it.
    ghost printed: { Self → Bool };

    /// Whether its text is printed as a line.
    fn has_line(&self) -> bool
        ensures { result ≡ printed self.now };
}

/// How a command ended.
#[derive(Drop)]
pub struct Ending {
    /// The exit status: 0, or 1 after a fault.
    pub status: ExitCode,
    /// Whether the line of its fault was written, if it has one.
    pub written: io::Result<()>,
}

/// Writes the line of a fault, if it has one.
#[tactic(auto, using(crate::proofs::Written::keeps_same))]
fn write_fault<F: PrintedFault + Display + Drop, W: Write>(out: &mut W, fault: F) -> io::Result<()>
    ensures { OnOk result (Prints (F.printed fault) (F.output fault) (W.contents out.old) (W.contents out.new)) }
{
    if !fault.has_line() {
        return Ok(());
    }
    out.writeln(fault)
}

/// Ends a command: writes the line of its fault, if it has one that is printed. The exit status doesn't depend on whether the
/// line could be written.
#[tactic(auto, using(crate::proofs::Written::keeps_same))]
pub fn write_end<F: PrintedFault + Display + Drop, W: Write>(
    out: &mut W,
    ended: Result<(), F>,
) -> Ending
    ensures status { exit_status result.status ≡ status_after ended }
    ensures printed { OnOk result.written (PrintsEnd F.printed F.output ended (W.contents out.old) (W.contents out.new)) }
{
    match ended {
        Ok(()) => Ending {
            status: ExitCode::SUCCESS,
            written: Ok(()),
        },
        Err(fault) => Ending {
            status: ExitCode::FAILURE,
            written: write_fault(out, fault),
        },
    }
}
