//! The devices of a poller: where it reads and sends datagrams, and a clock.

ghost use Rattle.std.specs.Prelude.{◌≡◌, ◌<◌, ◌≤◌, ◌^◌, take};

use srt_types::Peer;
use srt_types::protocol_limits::READ_ROOM;
use std::marker::PhantomData;

/// The outcome of a wait for datagrams.
#[derive(Clone, Copy, Debug, PartialEq, Eq)]
pub enum Polled {
    /// There may be datagrams; also if the time ran out.
    Ready,
    /// The device failed.
    Failed,
}

/// The outcome of a read.
#[derive(Clone, Copy, Debug, PartialEq, Eq)]
pub enum Read {
    /// A datagram: its sender, the number of its bytes in the buffer (at most 2048), and the moment of its arrival,
    /// in microseconds, below 2^62.
    Datagram(Peer, usize, u64),
    /// There is none now.
    Empty,
    /// The device failed, and no datagram was read.
    Failed,
}

/// The outcome of a send.
#[derive(Clone, Copy, Debug, PartialEq, Eq)]
pub enum Sent {
    /// The device took the datagram.
    Taken,
    /// There is no room now: nothing was sent, and the datagram may be sent again later.
    Later,
    /// The device failed, and the datagram is lost. It isn't to be sent again.
    Failed,
}

/// Gives datagrams.
pub trait Source {
    ghost use Rattle.std.specs.Prelude.{ℕ, Option, List};
    ghost use Rattle.srt_mailbox.specs.Counts.{Grew};
    ghost use Rattle.std.specs.Prelude.{[], ◌∷◌};
    ghost use Rattle.srt_poller.specs.Devices.{Arrival, Call, ReadsWell, given_by_read, call_of_wait, call_of_read, joined};
    ghost use Rattle.srt_poller.specs.declared.devices.Polled.TheVariants.{Failed as PollFailed};

    /// The number of failures of waits and reads. Saturates at 2^64 - 1.
    ghost failures: { Self → ℕ };

    /// All datagrams that it gave, the oldest first, or `None` for a device that doesn't record them, as a socket.
    ghost gave: { Self → Option (List Arrival) };

    /// All its waits and reads, each with what it answered, the oldest first, or `None` for a device that doesn't record
    /// them, as a socket.
    ghost calls: { Self → Option (List Call) };

    /// Waits until there may be datagrams, or until the source's own limit of time is over.
    fn wait(&mut self) -> Polled
        ensures failed { result ≡ PollFailed → Grew (failures self.old) (failures self.new) }
        ensures records { gave self.new ≡ gave self.old }
        ensures called { calls self.new ≡ joined (calls self.old) (call_of_wait result ∷ []) };

    /// Reads the next datagram to the front of the buffer, and doesn't wait for one. A datagram of more than 2048 bytes
    /// may be cut to its first 2048.
    fn next(&mut self, buffer: &mut [u8; READ_ROOM]) -> Read
        ensures well { ReadsWell result (failures self.old) (failures self.new) }
        ensures records { gave self.new ≡ joined (gave self.old) (given_by_read result buffer.new) }
        ensures called { calls self.new ≡ joined (calls self.old) (call_of_read result buffer.new ∷ []) };

    /// The number of failures of waits and reads. Saturates at 2^64 - 1.
    fn failures(&self) -> u64
        ensures { result ≡ failures self.now };
}

/// Sends datagrams.
pub trait Wire {
    ghost use Rattle.std.specs.Prelude.{ℕ, Option, List};
    ghost use Rattle.srt_types.specs.Items.{Datagram};
    ghost use Rattle.srt_mailbox.specs.Counts.{Grew};
    ghost use Rattle.std.specs.Prelude.{[], ◌∷◌};
    ghost use Rattle.srt_poller.specs.Devices.{datagram, handed_by_send, Attempt, attempt, joined};
    ghost use Rattle.srt_poller.specs.declared.devices.Sent.TheVariants.{Failed as SendFailed};

    /// The number of failed sends. Saturates at 2^64 - 1.
    ghost failures: { Self → ℕ };

    /// All datagrams of sends that returned `Taken` or `Failed`, the oldest first, or `None` for a device that doesn't
    /// record them, as a socket.
    ghost handed: { Self → Option (List Datagram) };

    /// All sends, each with its outcome, the oldest first, or `None` for a device that doesn't record them, as a socket.
    ghost attempts: { Self → Option (List Attempt) };

    /// Sends a datagram, and doesn't wait for room.
    fn send(&mut self, to: Peer, bytes: &[u8]) -> Sent
        ensures failed { result ≡ SendFailed → Grew (failures self.old) (failures self.new) }
        ensures records { handed self.new ≡ joined (handed self.old) (handed_by_send result (datagram to bytes.now)) }
        ensures attempted { attempts self.new ≡ joined (attempts self.old) (attempt (datagram to bytes.now) result ∷ []) };

    /// The number of failed sends. Saturates at 2^64 - 1.
    fn failures(&self) -> u64
        ensures { result ≡ failures self.now };
}

/// The types of a poller's devices, as one type parameter.
pub trait Devices {
    /// Where it reads datagrams.
    type Source: Source;

    /// Where it sends datagrams.
    type Wire: Wire;
}

/// Devices of these types. No value of it is made.
pub struct DevicesOf<S, W>(PhantomData<(S, W)>);

impl<S: Source, W: Wire> Devices for DevicesOf<S, W> {
    type Source = S;

    type Wire = W;
}

/// A clock.
pub trait Clock {
    ghost use Rattle.std.specs.Prelude.{ℕ, ◌<◌, ◌^◌};

    /// What is known of a time that it returned, of itself before and after. By default nothing.
    ghost returned: { Self → Self → (moment : ℕ) → Type 0 } = { λ _ _ _. Unit {0} };

    /// The time now, in microseconds, below 2^62.
    fn next(&mut self) -> u64
        ensures limit { result < 2 ^ 62 }
        ensures returned { returned self.old self.new result };
}
