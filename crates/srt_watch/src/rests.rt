//! Rests on the machine, and how many there were.

ghost use Rattle.std.specs.Prelude.{◌≡◌, ◌<◌};
ghost use Rattle.srt_watch.specs.Rests.{no_rests, with_rest, with_pause};

use crate::machine::Machine;

/// The rests and the pauses of a wait. Only those that the machine made are counted.
#[derive(Clone, Copy)]
pub(crate) struct Rests {
    rests: u32,
    pauses: u32,
}

impl Rests {
    /// Returns those of a wait that begins.
    pub(crate) fn none() -> Rests
        ensures { result ≡ no_rests }
    {
        Rests {
            rests: 0,
            pauses: 0,
        }
    }

    /// Rests once more.
    pub(crate) fn rest<M: Machine>(&mut self, machine: &M)
        requires { self.old.rests < 1_000 }
        ensures counted { self.new ≡ with_rest self.old }
        ensures rested { M.facts.has_rested }
    {
        machine.rest();
        self.rests += 1;
    }

    /// Pauses once more.
    pub(crate) fn pause<M: Machine>(&mut self, machine: &M)
        requires { self.old.pauses < 1_000 }
        ensures counted { self.new ≡ with_pause self.old }
        ensures paused { M.facts.has_paused }
    {
        machine.pause();
        self.pauses += 1;
    }

    /// Returns the number of rests.
    pub(crate) fn rests(&self) -> u32
        ensures { result ≡ self.now.rests }
    {
        self.rests
    }

    /// Returns the number of pauses.
    pub(crate) fn pauses(&self) -> u32
        ensures { result ≡ self.now.pauses }
    {
        self.pauses
    }
}
