//! A subscriber's session: its start, its agreed parameters, its room and its time.

ghost use Rattle.std.specs.Prelude.{◌≡◌, ℕ, ◌-◌, ◌≤◌, IfOk};
ghost use Rattle.srt_sendbuf.specs.Sending.{is_all_acknowledged, room};
ghost use Rattle.srt_sub.specs.Subscribing.{opened};

use crate::counts::Counts;
use crate::history::History;
use crate::resend_all::Resending;
use srt_sendbuf::SendBuf;
use srt_types::{Mode, Seq31};
use std::alloc::{AllocError, Global};

/// The parameters of a session: the time of its opening, and those of the caller and the handshake.
#[derive(Clone, Copy, Debug)]
pub struct Opening {
    /// Time of the opening, in microseconds of the route's clock.
    pub now: u64,
    /// The initial sequence number.
    pub initial: Seq31,
    /// The caller's socket ID.
    pub caller: u32,
    /// The agreed delay of the packets to the caller, in microseconds (section 4.4).
    pub delay: u32,
    /// Live or buffer mode.
    pub mode: Mode,
    /// The agreed MTU: the maximum size of a packet with its IP, UDP and SRT headers, in bytes.
    pub mtu: u32,
    /// The caller's flow window, in packets, until an ACK reports another.
    pub window: u32,
    /// Number of packets that may be sent again for each 100 new ones, in addition to 64 at the start; None if there
    /// is no limit (our choice).
    pub resend_percent: Option<u32>,
    /// When all packets in flight are sent again without a NAK (our choice).
    pub resending: Resending,
}

/// The data packets that an event sends next: lost packets are sent first.
#[derive(Clone, Copy, Debug, PartialEq, Eq)]
pub enum Phase {
    /// Lost packets, while the credit for resends lasts, and then new ones.
    Lost,
    /// Only new ones: the event has sent one.
    New,
}

/// A subscriber's session. Times of calls are microseconds of the route's clock, below 2^62, and never decrease. A
/// *time* of the session is in microseconds since its opening.
#[derive(Drop)]
pub struct Subscriber {
    /// The payloads that are queued and neither acknowledged nor expired.
    pub(crate) buffer: SendBuf,
    /// The state reported by the caller, and the times at which packets were sent.
    pub(crate) history: History,
    /// Live or buffer mode.
    pub(crate) mode: Mode,
    /// The agreed delay of the packets to the caller, in microseconds. In live mode it determines the threshold of
    /// expiry.
    pub(crate) delay: u32,
    /// The agreed MTU: the maximum size of a packet with its IP, UDP and SRT headers, in bytes.
    pub(crate) mtu: u32,
    /// When all packets in flight are sent again without a NAK.
    pub(crate) resending: Resending,
    /// Time of the opening, in microseconds of the route's clock.
    pub(crate) opening: u64,
    /// The caller's socket ID: the destination of all packets that are sent.
    pub(crate) caller: u32,
    /// Number of data packets that this event has sent so far, at most 64.
    pub(crate) given: u32,
    /// Which data packets are sent next.
    pub(crate) phase: Phase,
    /// Counters since the opening, except those of the data packets sent.
    pub(crate) counts: Counts,
}

impl Subscriber {
    ghost use Rattle.srt_sub.specs.Stands.{StandsFor, IsWide, HasBegun, ForWhatever, unstarted};

    /// Allocates a session with places for `width` packets, 32 to 8192; `start` begins it. The only call that
    /// allocates; the error is a failed allocation. O(width).
    pub fn open(alloc: Global, width: u32) -> Result<Subscriber, AllocError>
        requires some { 32 ≤ width }
        requires narrow { width ≤ 8192 }
        ensures wide { IfOk result (λ s. IsWide width s) }
        ensures stands { IfOk result (λ s. StandsFor (unstarted width) 0 0 0 0 s opened) }
    {
        let buffer = SendBuf::open(alloc, width)?;
        Ok(Subscriber {
            buffer,
            history: History::start(0, None),
            mode: Mode::Live,
            delay: 0,
            mtu: 0,
            resending: Resending::AtEachTimeout,
            opening: 0,
            caller: 0,
            given: 0,
            phase: Phase::Lost,
            counts: Counts::none(),
        })
    }

    /// Begins a session and discards the previous one. Linear in the number of stored packets.
    pub fn start(&mut self, opening: Opening)
        ensures { (width : ℕ) → IsWide width self.old → HasBegun width opening self.new }
    {
        self.buffer.start(opening.initial);
        self.history = History::start(opening.window, opening.resend_percent);
        self.mode = opening.mode;
        self.delay = opening.delay;
        self.mtu = opening.mtu;
        self.resending = opening.resending;
        self.opening = opening.now;
        self.caller = opening.caller;
        self.given = 0;
        self.phase = Phase::Lost;
        self.counts = Counts::none();
    }

    /// Returns the number of payloads that can still be queued. O(1).
    pub fn room(&self) -> u32
        ensures { ForWhatever self.now (λ terms initial opening caller last m. result ≡ room terms.width m.sending) }
    {
        self.buffer.room()
    }

    /// Whether all queued payloads are acknowledged. O(1).
    pub fn is_all_acknowledged(&self) -> bool
        ensures { ForWhatever self.now (λ terms initial opening caller last m. result ≡ is_all_acknowledged m.sending) }
    {
        self.buffer.is_all_acknowledged()
    }

    /// Returns the session's time at the clock's time `now`: microseconds since the opening.
    pub(crate) fn time(&self, now: u64) -> u64
        ensures value { result ≡ now - self.now.opening }
        ensures within { result ≤ now }
    {
        now.saturating_sub(self.opening)
    }
}
