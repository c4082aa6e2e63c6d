//! Faults and losses at the socket and of the log, and how many of them were logged.

ghost use Rattle.std.specs.Prelude.{◌≡◌};
ghost use Rattle.srt_watch.specs.Log.{Logged};
ghost use Rattle.srt_watch.specs.Losses.{no_losses, with_faults, with_missed, more_missed};
ghost use Rattle.srt_watch.specs.Losses.{fault_calls, drop_calls, loss_calls, after_faults, after_drops, after_losses};

use crate::log::{LogWriter, When};
use srt_log::LogEvent;
use std::io::Write;

/// Counts since the start, and how much of each was logged.
#[derive(Clone, Copy)]
pub(crate) struct Losses {
    // the faults of the socket, and how many of them were logged
    faults: u64,
    logged_faults: u64,
    // the datagrams dropped by the kernel that were logged
    logged_drops: u64,
    // the refusals that weren't reported to the watcher
    missed: u64,
}

impl Losses {
    /// Returns the counts of a gateway that begins.
    pub(crate) fn none() -> Losses
        ensures { result ≡ no_losses }
    {
        Losses {
            faults: 0,
            logged_faults: 0,
            logged_drops: 0,
            missed: 0,
        }
    }

    /// Notes the number of the socket's faults, to be logged at the next snapshot.
    pub(crate) fn note_faults(&mut self, faults: u64)
        ensures { self.new ≡ with_faults self.old faults }
    {
        self.faults = faults;
    }

    /// Notes the number of refusals that weren't reported, and returns by how many it has grown.
    pub(crate) fn note_missed(&mut self, missed: u64) -> u64
        ensures result { result ≡ more_missed self.old missed }
        ensures new { self.new ≡ with_missed self.old missed }
    {
        let more = missed.saturating_sub(self.missed);
        self.missed = missed;
        more
    }

    // Writes how many faults the socket had since the last such line, if it had any.
    fn log_faults<W: Write + Drop>(&mut self, log: &mut LogWriter<W>, when: When)
        ensures logged { Logged (W.contents log.old.out.out) (W.contents log.new.out.out) log.old.pace log.new.pace (fault_calls self.old when) }
        ensures new { self.new ≡ after_faults self.old }
    {
        let count = self.faults.saturating_sub(self.logged_faults);
        if count > 0 {
            log.append_always(when, LogEvent::SocketFaults { count });
            self.logged_faults = self.faults;
        }
    }

    // Writes how many datagrams the kernel dropped since the last such line, if it dropped any.
    fn log_drops<W: Write + Drop>(&mut self, log: &mut LogWriter<W>, when: When, drops: Option<u64>)
        ensures logged { Logged (W.contents log.old.out.out) (W.contents log.new.out.out) log.old.pace log.new.pace (drop_calls self.old when drops) }
        ensures new { self.new ≡ after_drops self.old drops }
    {
        let drops = drops.unwrap_or(self.logged_drops);
        let count = drops.saturating_sub(self.logged_drops);
        if count > 0 {
            log.append_always(when, LogEvent::KernelDrops { count });
            self.logged_drops = drops;
        }
    }

    /// Writes how many faults the socket had, and how many datagrams the kernel dropped, since the last such lines. `drops`
    /// is the number of dropped datagrams so far; `None` if it isn't known.
    #[tactic(auto, using(crate::proofs::Logging::logged_both))]
    pub(crate) fn log<W: Write + Drop>(
        &mut self,
        log: &mut LogWriter<W>,
        when: When,
        drops: Option<u64>,
    )
        ensures logged { Logged (W.contents log.old.out.out) (W.contents log.new.out.out) log.old.pace log.new.pace (loss_calls self.old when drops) }
        ensures new { self.new ≡ after_losses self.old drops }
    {
        self.log_faults(log, when);
        self.log_drops(log, when, drops);
    }
}
