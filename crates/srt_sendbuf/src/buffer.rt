//! The sender buffer: payloads that are queued and neither acknowledged nor expired, and which packets are lost
//! (draft-sharabayko-srt-01, sections 4.6 and 4.8.2).

ghost use Rattle.std.specs.Prelude.{◌≡◌, ℕ, ◌+◌, ◌-◌, ◌*◌, ◌/◌, ◌<◌, ◌≤◌, ◌↔◌, true, false, Some, [], length, max, option_map, nat_lt, IsErr, IfOk, OnErr};
ghost use Rattle.std.specs.List.Sorted.{IsNonDecreasingBy};
ghost use Rattle.srt_types.specs.Window.{number_word, word_of};
ghost use Rattle.srt_types.specs.Counts.{message_of, message_number};
ghost use Rattle.srt_types.specs.Runs.{ranges_from};
ghost use Rattle.srt_loss.specs.Window.{is_in_part};
ghost use Rattle.srt_sendbuf.specs.Places.{length_of, lost_at, marks_of};
ghost use Rattle.srt_sendbuf.specs.Parts.{is_in_parts, AreWithin};

use crate::parts::{PARTS, next_parts, split};
use crate::ring::{Marked, Ring};
use srt_loss::{LossRef, Ranges};
use srt_types::protocol_limits::ACK_REACH;
use srt_types::{Msg26, Seq31};
use std::alloc::{AllocError, Global};

/// The cap of `behind`. All values above `ACK_REACH` behave alike, so the counter stops here.
const BEHIND_END: usize = 16384;

/// A packet that is to be sent now.
#[derive(Clone, Copy, Debug, PartialEq, Eq)]
pub struct Out<'a> {
    /// Its sequence number (section 3.1).
    pub number: Seq31,
    /// Its message number (section 3.1).
    pub message: Msg26,
    /// Whether it was sent before. Then the packet has the flag R (section 3.1).
    pub again: bool,
    /// The time at which its payload was queued: the parameter `now` of `queue`, in microseconds.
    pub origin: u64,
    /// The bytes of its payload, at most 1456. They stay in the buffer.
    pub payload: &'a [u8],
}

/// The contents of a drop request (section 3.2.9): all sequence numbers from the base up to the front, which are
/// expired and not acknowledged. `SendBuf::lose` returns it if a loss list contains any of them.
#[derive(Clone, Copy, Debug, PartialEq, Eq)]
pub struct DropRun {
    /// The first number.
    pub first: Seq31,
    /// The last number, inclusive.
    pub last: Seq31,
    /// The message number of the first number.
    pub message: Msg26,
}

/// Error of `queue`: no place is free.
#[derive(Clone, Copy, Debug, PartialEq, Eq)]
pub struct Full;

/// Returns the message number `steps` packets later. O(steps).
pub(crate) fn message_after(message: Msg26, steps: usize) -> Msg26
    ensures { (k : ℕ) → message_of message ≡ message_number k → message_of result ≡ message_number (k + steps) }
{
    let mut reached = message;
    for _ in 0..steps {
        reached = reached.next();
    }
    reached
}

/// The payloads of one stream that are queued and neither acknowledged nor expired, 8192 at most. The first of them
/// are in flight, the others wait to be sent. The k-th queued payload, from 0, has the initial sequence number + k.
///
/// The *front* is the least number that is neither acknowledged nor expired. *Next* is the first number not sent. The
/// *base* is the least number not acknowledged, but at most 8192 before the front. An ACK's number is from base to
/// next, inclusive. Times are microseconds of one clock of the caller's choice and never decrease.
#[derive(Drop)]
pub struct SendBuf {
    pub(crate) ring: Ring,
    /// Sequence number of the first place.
    pub(crate) front: Seq31,
    /// Distance from the least number not acknowledged to the front, at most `BEHIND_END`.
    pub(crate) behind: usize,
    /// Number of packets in flight: they have the places below it.
    pub(crate) sent: usize,
    /// The first lost place, if `low` is below `high`.
    pub(crate) low: usize,
    /// No place from this one on is lost.
    pub(crate) high: usize,
    /// Message number of the base.
    pub(crate) message: Msg26,
    /// Message number of the payload that is queued next.
    next_message: Msg26,
    ghost queue_in: { length_of ring ≤ 8192 },
    ghost behind_in: { behind ≤ 16384 },
    ghost sent_in: { sent ≤ length_of ring },
    ghost high_in: { high ≤ sent },
    ghost low_in: { low ≤ high },
}

impl SendBuf {
    ghost use Rattle.srt_sendbuf.specs.Sending.{Sending, nothing_yet, front, room, in_flight, is_all_acknowledged, lost, queued};
    ghost use Rattle.srt_sendbuf.specs.Sending.{expired_before, requested, all_lost, IsTimely, IsLater};
    ghost use Rattle.srt_sendbuf.specs.Outgoing.{gone_for, gone_by};
    ghost use Rattle.srt_sendbuf.specs.Stands.{StandsFor, ForWhatever, Becomes, BecomesIf, MovesFront, HasMarked, TakesParts, marks};

    /// Allocates an empty buffer of `width` packets, 32 to 8192, for a stream with the initial number 0; `start`
    /// begins any other. The only call that allocates; the error is a failed allocation. O(width).
    pub fn open(alloc: Global, width: u32) -> Result<SendBuf, AllocError>
        requires some { 32 ≤ width }
        requires narrow { width ≤ 8192 }
        ensures { IfOk result (λ b. StandsFor width 0 b nothing_yet) }
    {
        let ring = Ring::open(alloc, width as usize)?;
        Ok(SendBuf {
            ring,
            front: Seq31::ZERO,
            behind: 0,
            sent: 0,
            low: 0,
            high: 0,
            message: Msg26::first(),
            next_message: Msg26::first(),
        })
    }

    /// Discards everything and starts a stream whose first sequence number is `initial`. Linear in the number of
    /// packets in the buffer.
    pub fn start(&mut self, initial: Seq31)
        ensures { (width before : ℕ) (r : Sending) → StandsFor width before self.old r → StandsFor width (word_of initial) self.new nothing_yet }
    {
        let count = self.ring.len();
        self.ring.slide_by(count);
        self.front = initial;
        self.behind = 0;
        self.sent = 0;
        self.low = 0;
        self.high = 0;
        self.message = Msg26::first();
        self.next_message = Msg26::first();
    }

    /// Returns the number of payloads that can still be queued. O(1).
    pub fn room(&self) -> u32
        ensures { ForWhatever self.now (λ width initial r. result ≡ room width r) }
    {
        (self.ring.width() - self.ring.len()) as u32
    }

    /// Queues a payload, 0 to 1456 bytes, with the next sequence number. `now` is the current time in microseconds,
    /// not before that of any earlier call; `Out::origin` returns it. `Full` if no place is free; then nothing
    /// changes. O(1), one copy.
    pub fn queue(&mut self, payload: &[u8], now: u64) -> Result<(), Full>
        requires { length payload.now ≤ 1456 }
        ensures stands { IfOk result (λ done. BecomesIf (IsTimely now) self.old self.new (queued now payload.now)) }
        ensures full { ForWhatever self.old (λ width initial r. IsErr result ↔ (room width r ≡ 0)) }
        ensures same { OnErr result (self.new ≡ self.old) }
    {
        if self.ring.len() == self.ring.width() {
            return Err(Full);
        }
        let message = self.next_message;
        self.ring.put(now, message, payload);
        self.next_message = message.next();
        Ok(())
    }

    /// Returns the number of packets in flight: sent, and neither acknowledged nor expired. O(1).
    pub fn in_flight(&self) -> u32
        ensures { ForWhatever self.now (λ width initial r. result ≡ in_flight r) }
    {
        let flying = self.sent;
        flying as u32
    }

    /// Returns the number of payloads that are queued and neither acknowledged nor expired. O(1).
    pub fn stored(&self) -> u32
        ensures { ForWhatever self.now (λ width initial r. result ≡ length r.queue - front r) }
    {
        let stored = self.ring.len();
        stored as u32
    }

    /// Returns the sequence number of the front: that of the first stored payload, or if none is stored, of the next one
    /// that is queued. O(1).
    pub fn front_number(&self) -> Seq31
        ensures { ForWhatever self.now (λ width initial r. word_of result ≡ number_word initial (front r)) }
    {
        let number = self.front;
        number
    }

    /// Whether all queued payloads are acknowledged. O(1).
    pub fn is_all_acknowledged(&self) -> bool
        ensures { ForWhatever self.now (λ width initial r. result ≡ is_all_acknowledged r) }
    {
        if self.behind != 0 {
            return false;
        }
        self.ring.len() == 0
    }

    /// Whether any packet in flight is marked as lost. O(1).
    pub fn any_lost(&self) -> bool
        ensures { ForWhatever self.now (λ width initial r. result ≡ nat_lt 0 (length (lost r))) }
    {
        let span = self.high - self.low;
        span > 0
    }

    /// Moves the front on by `count` packets, and sets the fields `behind` and `message`. O(count), and the search for
    /// the next lost packet.
    #[inline(never)]
    pub(crate) fn move_front(&mut self, count: usize, behind: usize, message: Msg26)
        requires inside { count ≤ length_of self.old.ring }
        requires behind_in { behind ≤ 16384 }
        ensures { MovesFront count behind (message_of message) self.old self.new }
    {
        let low = self.low.saturating_sub(count);
        let high = self.high.saturating_sub(count);
        self.ring.slide_by(count);
        self.front = self.front.add(count as u32);
        self.behind = behind;
        self.message = message;
        self.sent = self.sent.saturating_sub(count);
        self.low = self.ring.find_lost(low, high);
        self.high = high;
    }

    /// Drops the packets that were queued before a time, in microseconds, sent or not (section 4.6). A time of 0 or
    /// less drops nothing. The times of successive calls never decrease. Returns the number of dropped packets. Linear
    /// in that number; if it is 0, inspects only the first packet.
    #[inline(always)]
    pub fn expire(&mut self, before: i64) -> u32
        ensures stands { BecomesIf (IsLater before) self.old self.new (expired_before before) }
        ensures count { ForWhatever self.old (λ width initial r. IsLater before r → front r + result ≡ front (expired_before before r)) }
    {
        let count = self.ring.count_before(before);
        if count == 0 {
            return 0;
        }
        let behind = (self.behind + count).min(BEHIND_END);
        let steps = count + self.back() - behind.min(ACK_REACH);
        let message = message_after(self.message, steps);
        self.move_front(count, behind, message);
        count as u32
    }

    /// Marks the packets of a part as lost. Those in `run`, which doesn't begin later, are marked already.
    fn lose_part(&mut self, run: &mut Marked, part: (u32, u32))
        requires order { part.0 ≤ part.1 }
        requires inside { part.1 < self.old.sent }
        requires later { run.old.from ≤ part.0 }
        requires marked { (d : ℕ) → run.old.from ≤ d → d < run.old.end → lost_at self.old.ring d ≡ true }
        ensures lost { HasMarked (is_in_part (Some part)) self.old self.new }
        ensures marked { (d : ℕ) → run.new.from ≤ d → d < run.new.end → lost_at self.new.ring d ≡ true }
        ensures from { run.new.from ≤ part.0 }
        ensures end { run.new.end ≡ max run.old.end (part.1 + 1) }
        ensures marks { marks_of self.new.ring + run.old.end ≤ marks_of self.old.ring + run.new.end }
    {
        let first = part.0 as usize;
        let end = part.1 as usize + 1;
        self.ring.mark_past(run, first, end);
        if self.high > self.low {
            self.low = self.low.min(first);
            self.high = self.high.max(end);
        } else {
            self.low = first;
            self.high = end;
        }
    }

    /// Marks the packets of all parts as lost, each once, however the parts overlap.
    fn lose_parts(&mut self, parts: &[(u32, u32)])
        requires within { AreWithin self.old.sent parts.now }
        requires ascending { IsNonDecreasingBy (λ part. part.0) parts.now }
        ensures lost { HasMarked (is_in_parts parts.now) self.old self.new }
        ensures marks { marks_of self.new.ring ≤ marks_of self.old.ring + self.old.sent }
    {
        let mut run = Marked { from: 0, end: 0 };
        let mut rest = parts;
        while let Some(next) = split(rest) {
            self.lose_part(&mut run, next.part);
            rest = next.more;
        }
    }

    /// Marks the numbers in flight in a list's next ranges as lost. True if more ranges may remain.
    fn lose_next(&mut self, ranges: &mut Ranges<'_>) -> bool
        ensures lost { TakesParts self.old self.new ranges.old ranges.new }
        ensures marks { marks_of self.new.ring ≤ marks_of self.old.ring + self.old.sent }
        ensures shorter { result ≡ true → length ranges.new + 365 ≤ length ranges.old }
        ensures none { result ≡ false → ranges.new ≡ [] }
    {
        let parts = next_parts(ranges, self.front, self.sent as u32);
        self.lose_parts(parts.as_slice());
        parts.len() == PARTS
    }

    /// Processes a loss list (NAK, sections 3.2.5 and 4.8.2): marks its numbers in flight as lost. If it contains any
    /// number from the base up to the front, which are expired and not acknowledged, returns the run of all of these
    /// for a drop request (our choice). Linear in its numbers in flight and in its n ranges, or O(n log n) if they
    /// neither ascend nor descend. Up to 364 ranges, the maximum of a datagram, mark each number in flight at most
    /// once, however they overlap (`marks`). Doesn't allocate.
    pub fn lose(&mut self, losses: &LossRef<'_>) -> Option<DropRun>
        ensures stands { Becomes self.old self.new (λ initial r. requested (ranges_from initial losses.now) r) }
        ensures answer { ForWhatever self.old (λ width initial r. option_map gone_by result ≡ gone_for initial (ranges_from initial losses.now) r) }
        ensures marks { ForWhatever self.old (λ width initial r. marks self.new ≤ marks self.old + (length losses.now / 365 + 1) * in_flight r) }
    {
        let gone = self.asks_any_gone(losses);
        let mut ranges = losses.ranges();
        while self.lose_next(&mut ranges) {}
        if gone { Some(self.gone()) } else { None }
    }

    /// Marks all numbers in flight as lost. Linear in their number.
    pub fn lose_all(&mut self)
        ensures { Becomes self.old self.new (λ initial r. all_lost r) }
    {
        self.ring.mark_all(0, self.sent);
        self.low = 0;
        self.high = self.sent;
    }
}
