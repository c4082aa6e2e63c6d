//! The counters of a subscriber's session: payloads queued, data packets sent, loss lists, packets expired, and data
//! packets received although a subscriber has no use for them.

ghost use Rattle.std.specs.Prelude.{◌≡◌, length};
ghost use Rattle.srt_sub.specs.Counting.{one_if};

/// Counters of a session since its opening. Each stops at 2^64 - 1.
#[derive(Clone, Copy, Debug, PartialEq, Eq)]
pub struct Counts {
    /// Payloads that were queued.
    pub queued: u64,
    /// Bytes of these payloads.
    pub bytes: u64,
    /// NAKs whose loss list was processed.
    pub naks: u64,
    /// Packets that were dropped because they were too late, sent or not (section 4.6), and weren't acknowledged
    /// before.
    pub given_up: u64,
    /// Data packets received from the caller, encrypted or not. They are ignored: the caller requested to receive, as
    /// an encoder does that omits `m=publish` from its Stream ID.
    pub misdirected: u64,
}

impl Counts {
    ghost use Rattle.srt_sub.specs.Counting.{AreCounts, with_payload, with_list, with_expired, with_misdirected};

    /// Returns the counters of a session that has just begun.
    pub(crate) fn none() -> Counts
        ensures { AreCounts result 0 0 0 0 0 }
    {
        Counts {
            queued: 0,
            bytes: 0,
            naks: 0,
            given_up: 0,
            misdirected: 0,
        }
    }

    /// Counts a payload that is queued.
    pub(crate) fn feed(&mut self, payload: &[u8])
        ensures { self.new ≡ with_payload (length payload.now) self.old }
    {
        self.queued = self.queued.saturating_add(1);
        self.bytes = self.bytes.saturating_add(payload.len() as u64);
    }

    /// Counts a loss list that is processed.
    pub(crate) fn ask(&mut self)
        ensures { self.new ≡ with_list self.old }
    {
        self.naks = self.naks.saturating_add(1);
    }

    /// Counts a data packet received from the caller.
    pub(crate) fn misdirect(&mut self)
        ensures { self.new ≡ with_misdirected self.old }
    {
        self.misdirected = self.misdirected.saturating_add(1);
    }

    /// Counts packets that expire.
    pub(crate) fn give_up(&mut self, count: u32)
        ensures { self.new ≡ with_expired count self.old }
    {
        self.given_up = self.given_up.saturating_add(u64::from(count));
    }
}

/// Counters of the data packets that a session sent since its opening. Each stops at 2^64 - 1.
#[derive(Clone, Copy, Debug, PartialEq, Eq)]
pub struct Sendings {
    /// Data packets sent for the first time.
    pub fresh: u64,
    /// Data packets sent again, with the flag R (section 3.1).
    pub resent: u64,
}

impl Sendings {
    ghost use Rattle.srt_sub.specs.Counting.{AreSendings, with_sent};

    /// Returns the counters of a session that has just begun.
    pub(crate) fn none() -> Sendings
        ensures { AreSendings result 0 0 }
    {
        Sendings {
            fresh: 0,
            resent: 0,
        }
    }

    /// Counts a data packet that is sent.
    pub(crate) fn send(&mut self, again: bool)
        ensures { self.new ≡ with_sent again self.old }
    {
        self.fresh = self.fresh.saturating_add(one_if(!again));
        self.resent = self.resent.saturating_add(one_if(again));
    }
}

/// Returns 1 if `yes`, else 0.
fn one_if(yes: bool) -> u64
    ensures { result ≡ one_if yes }
{
    if yes { 1 } else { 0 }
}
