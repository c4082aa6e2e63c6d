//! The machine that a watcher runs on.

use srt_status::ProcessUse;

/// Clocks, signals and counters of the machine.
pub trait Machine {
    ghost use Rattle.std.specs.Prelude.{◌≡◌, true, Option, None, IfSome};
    ghost use Rattle.srt_watch.specs.Facts.{MachineFacts, any_machine};
    ghost use Rattle.srt_watch.specs.Machines.{MachineState};

    /// What only its calls ensure. It may be nothing.
    ghost facts: { MachineFacts } = { any_machine };

    /// What its calls return, or `None` for a machine that doesn't tell.
    ghost says: { Self → Option MachineState } = { λ _. None };

    /// Rests for some milliseconds.
    fn rest(&self)
        ensures { facts.has_rested };

    /// Rests for a millisecond.
    fn pause(&self)
        ensures { facts.has_paused };

    /// Reads the routes' clock, in microseconds.
    fn moment(&mut self) -> u64
        ensures moment { IfSome (says self.old) (λ s. result ≡ s.moment) }
        ensures known { facts.was_moment result }
        ensures stays { says self.new ≡ says self.old };

    /// Reads the system's clock, in microseconds since 1970.
    fn time(&self) -> u64
        ensures { IfSome (says self.now) (λ s. result ≡ s.time) };

    /// Whether a signal to stop has arrived.
    fn stop_requested(&self) -> bool
        ensures says { IfSome (says self.now) (λ s. result ≡ s.stops) }
        ensures known { result ≡ true → facts.was_signalled };

    /// Returns the memory of the process, in bytes; `None` if that isn't known.
    fn memory(&self) -> Option<u64>
        ensures { IfSome (says self.now) (λ s. result ≡ s.memory) };

    /// Returns the number of datagrams so far that the kernel dropped at the gateway's socket; `None` if that isn't known.
    fn drops(&self) -> Option<u64>
        ensures { IfSome (says self.now) (λ s. result ≡ s.drops) };

    /// Returns what the process uses besides its memory.
    fn process(&self) -> ProcessUse
        ensures { IfSome (says self.now) (λ s. result ≡ s.process) };

    /// Returns the bytes that the kernel holds for datagrams at the gateway's socket before it drops any; `None` if that isn't known.
    fn receive_buffer(&self) -> Option<u64>
        ensures { IfSome (says self.now) (λ s. result ≡ s.receive_buffer) };
}
