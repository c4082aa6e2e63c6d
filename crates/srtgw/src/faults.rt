//! The faults that end a run early. The text of each is the line that is printed for it.

ghost use Rattle.std.specs.Prelude.{◌≡◌};
ghost use Rattle.srtgw.specs.Ends.{is_printed, fault_of};

use srt_host::WatcherFault;
use srt_offline::{OfflineFault, PrintedFault};
use srt_poller::BindFault;
use srt_serve::RunFault;
use thiserror::Error;

/// Why a run ended early. All give status 1, and all but an output that can't be written print one line, their text, on
/// standard output.
#[derive(Debug, Drop, Error)]
pub enum Fault {
    /// Files, memory or the output, as at a command that opens no socket.
    #[error(transparent)]
    Offline(OfflineFault),
    /// No UDP socket was bound, for this reason.
    #[error(transparent)]
    Bind(BindFault),
    /// The routes weren't served, or weren't taken back at the end, for this reason.
    #[error(transparent)]
    Run(RunFault),
}

impl Fault {
    /// The fault of a run without a watcher.
    pub fn of_watcher(fault: WatcherFault) -> Fault
        ensures { result ≡ fault_of fault }
    {
        match fault {
            WatcherFault::Page(number) => Fault::Bind(BindFault::Socket(number)),
            WatcherFault::OutOfMemory => Fault::Offline(OfflineFault::Memory),
        }
    }

    /// Whether the fault's text is printed as a line: for all faults but an output that can't be written.
    pub fn is_printed(&self) -> bool
        ensures { result ≡ is_printed self.now }
    {
        match self {
            Fault::Offline(fault) => fault.is_printed(),
            Fault::Bind(_) | Fault::Run(_) => true,
        }
    }
}

impl PrintedFault for Fault {
    ghost printed = { is_printed };

    fn has_line(&self) -> bool {
        self.is_printed()
    }
}
