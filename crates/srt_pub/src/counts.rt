//! The counters of a publisher's session: packets arrived, received, delivered or given up, NAKs with the numbers that
//! they report as lost, and Full ACKs of a full window.

ghost use Rattle.std.specs.Prelude.{◌≡◌, ◌≤◌, [], length};
ghost use Rattle.srt_pub.specs.Counting.{one_if};

use crate::region::Region;
use srt_recvbuf::Put;
use srt_types::PayloadRef;

/// Counters of a session since its opening. Each stops at 2^64 - 1.
#[derive(Clone, Copy, Debug, PartialEq, Eq)]
pub struct Counts {
    /// Unencrypted data packets that arrived, with any number. Those that aren't counted in `received`, `late` or
    /// `ahead` were repeats of a received number of the window.
    pub arrived: u64,
    /// Packets counted in `came` that arrived too late: their number is below the window's front, so it was delivered,
    /// given up or dropped before.
    pub late: u64,
    /// Packets counted in `came` that arrived ahead of the window: their number is at or past its end, by fewer than
    /// 2^30. They aren't received, and the sender has to send them again.
    pub ahead: u64,
    /// Packets that were received, each number once.
    pub received: u64,
    /// Payload bytes of the packets counted in `received`.
    pub bytes: u64,
    /// Received packets that were delivered, or skipped while the publisher was on standby.
    pub delivered: u64,
    /// Numbers that the front passed without a packet: skipped because a later packet was due, or dropped on request
    /// of the sender (sections 3.2.9 and 4.6).
    pub given_up: u64,
    /// NAKs that were sent, of all gaps or of new ones.
    pub naks: u64,
    /// Numbers that the loss lists of these NAKs reported as lost. A number is counted once for each NAK that reported
    /// it.
    pub reported_lost: u64,
    /// Full ACKs that were sent while the available buffer size was 0: all places of the window were occupied by
    /// received packets that wait for delivery (section 3.2.4).
    pub full_window_acks: u64,
}

impl Counts {
    ghost use Rattle.srt_pub.specs.Counting.{counts_of, with_one, with_put, with_steps, with_nak, with_full_window};

    /// Returns the counters of a session that has just begun.
    pub fn none() -> Counts
        ensures { result ≡ counts_of [] 0 0 [] }
    {
        Counts {
            arrived: 0,
            late: 0,
            ahead: 0,
            received: 0,
            bytes: 0,
            delivered: 0,
            given_up: 0,
            naks: 0,
            reported_lost: 0,
            full_window_acks: 0,
        }
    }

    /// Counts the arrival of an unencrypted data packet, by the region of its number.
    pub(crate) fn come(&mut self, region: Region)
        ensures { self.new ≡ with_one region self.old }
    {
        self.arrived = self.arrived.saturating_add(1);
        match region {
            Region::Inside => {}
            Region::Ahead => self.ahead = self.ahead.saturating_add(1),
            Region::Late => self.late = self.late.saturating_add(1),
        }
    }

    /// Counts a packet that was put into the window, by the buffer's result.
    pub(crate) fn store(&mut self, put: Put, payload: PayloadRef<'_>)
        ensures { self.new ≡ with_put put (length payload.entry.bytes.now) self.old }
    {
        match put {
            Put::New => {
                self.received = self.received.saturating_add(1);
                self.bytes = self.bytes.saturating_add(payload.bytes.len() as u64);
            }
            Put::Repeat => {}
            Put::Outside => {}
        }
    }

    /// Counts the packets that the front passes: `steps` in all. One of them is delivered if `is_due`.
    pub(crate) fn count_passed(&mut self, steps: u32, is_due: bool)
        ensures { self.new ≡ with_steps steps is_due self.old }
    {
        let delivered = one_if(is_due);
        self.delivered = self.delivered.saturating_add(delivered);
        self.given_up = self
            .given_up
            .saturating_add(u64::from(steps).saturating_sub(delivered));
    }

    /// Counts a NAK that is sent, and the numbers that it reports as lost.
    pub(crate) fn ask(&mut self, lost: u64)
        ensures { self.new ≡ with_nak lost self.old }
    {
        self.naks = self.naks.saturating_add(1);
        self.reported_lost = self.reported_lost.saturating_add(lost);
    }

    /// Counts a Full ACK of a window without an available place, if `is_full`.
    pub(crate) fn fill(&mut self, is_full: bool)
        ensures { self.new ≡ with_full_window is_full self.old }
    {
        self.full_window_acks = self.full_window_acks.saturating_add(one_if(is_full));
    }
}

/// Returns 1 if `yes`, else 0.
fn one_if(yes: bool) -> u64
    ensures value { result ≡ one_if yes }
    ensures small { result ≤ 1 }
{
    if yes { 1 } else { 0 }
}
