//! How a socket's source waits.

ghost use Rattle.std.specs.Prelude.{◌≡◌};
ghost use Rattle.srt_poller.specs.Pauses.{at_first, pause, after_wait, after_datagram, after_end, after_put_off};

use crate::density::Density;
use crate::tuning::{BURST, DENSE, SHORT_WAITS, TOO_DENSE};

/// A wait.
#[derive(Clone, Copy, Debug, PartialEq, Eq)]
pub(crate) enum Pause {
    /// Until the socket has a datagram, for at most this many milliseconds.
    Poll(u64),
    /// A tenth of a millisecond, whatever arrives meanwhile.
    Nap,
}

/// Which wait is next. One that ends with a datagram lasts at most 0 ms while there may be more to read, 1 ms for the
/// 100 waits after a datagram arrived or a send returned Later, else 10 ms. In place of one of 1 ms the source naps, if 20
/// to 99 datagrams arrive in a millisecond and the round before had some to read, but few to read and to send: then a nap
/// costs less than the waits for each of the next datagrams.
#[derive(Clone, Copy)]
pub(crate) struct Pace {
    /// The last read returned a datagram, so there may be more.
    pub(crate) more: bool,
    /// The number of short waits left.
    pub(crate) warm: u32,
    /// The number of datagrams that arrived since the last wait; saturates at 64.
    pub(crate) read: u32,
    /// How densely datagrams arrive.
    pub(crate) density: Density,
}

impl Pace {
    /// The first wait is long.
    pub(crate) fn new() -> Pace
        ensures { result ≡ at_first }
    {
        Pace {
            more: false,
            warm: 0,
            read: 0,
            density: Density::new(),
        }
    }

    /// The wait that begins now. `sent` is the number of datagrams that were sent since the last one.
    pub(crate) fn wait(&mut self, sent: u32) -> Pause
        ensures pause { result ≡ pause sent self.old }
        ensures pace { self.new ≡ after_wait self.old }
    {
        let read = self.read;
        self.read = 0;
        if self.more {
            return Pause::Poll(0);
        }
        if self.warm == 0 {
            return Pause::Poll(10);
        }
        self.warm -= 1;
        let is_dense = DENSE <= self.density.last && self.density.last < TOO_DENSE;
        if is_dense && 0 < read && read < BURST && sent < BURST {
            Pause::Nap
        } else {
            Pause::Poll(1)
        }
    }

    /// A datagram arrived at this time, in microseconds, so there may be more.
    pub(crate) fn arrived(&mut self, moment: u64)
        ensures { self.new ≡ after_datagram moment self.old }
    {
        self.more = true;
        self.warm = SHORT_WAITS;
        if self.read < BURST {
            self.read += 1;
        }
        self.density.arrived(moment);
    }

    /// A read found no datagram, or failed.
    pub(crate) fn ended(&mut self)
        ensures { self.new ≡ after_end self.old }
    {
        self.more = false;
    }

    /// A send returned Later, and is to be tried again soon.
    pub(crate) fn put_off(&mut self)
        ensures { self.new ≡ after_put_off self.old }
    {
        self.warm = SHORT_WAITS;
    }
}
