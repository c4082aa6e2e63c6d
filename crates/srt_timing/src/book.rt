//! The most recent Full ACKs and their confirmation by ACKACKs (draft-sharabayko-srt-01, sections 3.2.4 and 3.2.8).

ghost use Rattle.std.specs.Prelude.{◌≡◌, ℕ, ◌+◌, ◌-◌, ◌%◌, ◌<◌, ◌≤◌, List, [], IfOk, IfSome, IsNone, vec_len, length};
ghost use Rattle.srt_types.specs.Counts.{ack_number};
ghost use Rattle.srt_timing.specs.inside.Steps.{IsStepsBack};

use srt_types::protocol_limits::{FULL_ACKS_KEPT, MAX_RTT_SAMPLE_US};
use std::alloc::{AllocError, Global};

/// The greatest number of a Full ACK. 1 follows it (our choice).
const LAST_NUMBER: u32 = u32::MAX;

/// The last 64 Full ACKs that were sent: when each was sent, and whether it was confirmed. A ring of fixed size, about
/// 1 KB.
#[derive(Drop)]
pub struct AckBook {
    /// The number of the next Full ACK.
    next: u32,
    /// The index at which the next time is stored. The latest is at the index before, modulo 64.
    at: usize,
    /// The sending times, in microseconds, of the unconfirmed Full ACKs; None for all others.
    moments: Vec<Option<u64>>,
    ghost numbers_from_one: { 0 < next },
    ghost at_in: { at < 64 },
    ghost places: { vec_len moments ≡ 64 },
}

impl AckBook {
    ghost use Rattle.srt_timing.specs.Book.{Noted, noted, sample, confirmed, waiting_place, StandsFor};

    /// Returns an empty book, whose first Full ACK has number 1. The only function that allocates; its only error is a
    /// failed allocation.
    pub fn open(alloc: Global) -> Result<AckBook, AllocError>
        ensures { IfOk result (λ book. StandsFor book []) }
    {
        Ok(AckBook {
            next: 1,
            at: 0,
            moments: vec![in alloc; None; FULL_ACKS_KEPT]?,
        })
    }

    /// Empties the book: the next Full ACK has number 1 again.
    pub fn clear(&mut self)
        ensures { StandsFor self.new [] }
    {
        self.next = 1;
        self.at = 0;
        self.moments.fill(None);
    }

    /// Records a Full ACK that is sent at `moment`, in microseconds, and returns its number. Numbers count from 1 to
    /// 2^32 - 1, and then from 1 again. The Full ACK 64 before this one can no longer be confirmed. O(1).
    pub fn note(&mut self, moment: u64) -> u32
        ensures number { (history : List Noted) → StandsFor self.old history → result ≡ ack_number (length history) }
        ensures stands { (history : List Noted) → StandsFor self.old history → StandsFor self.new (noted moment history) }
    {
        let number = self.next;
        self.moments[self.at] = Some(moment);
        self.at = (self.at + 1) % FULL_ACKS_KEPT;
        self.next = if number == LAST_NUMBER { 1 } else { number + 1 };
        number
    }

    /// Returns the number of Full ACKs that were sent after the one that an ACKACK with this number would confirm: 0 to
    /// 63. None if it would confirm none. O(1).
    pub fn place_of(&self, number: u32) -> Option<usize>
        ensures value { (history : List Noted) → StandsFor self.now history → result ≡ waiting_place number history }
        ensures below { IfSome result (λ place. place < 64) }
    {
        let place = steps_back(self.next, number)?;
        match self.moments[self.index_of(place)] {
            Some(_) => Some(place),
            None => None,
        }
    }

    /// Processes an ACKACK with this number that arrives at `now`, in microseconds. Returns the sample of the
    /// round-trip time: the microseconds since the Full ACK was sent, 0 to 10,000,000. None if none of the last 64 Full
    /// ACKs has the number, or if that one was already confirmed; then nothing changes. O(1).
    pub fn confirm(&mut self, number: u32, now: u64) -> Option<u64>
        ensures reply { (history : List Noted) → StandsFor self.old history → result ≡ sample number now history }
        ensures stands { (history : List Noted) → StandsFor self.old history → StandsFor self.new (confirmed number history) }
        ensures capped { IfSome result (λ s. s ≤ 10_000_000) }
        ensures kept { IsNone result → self.new ≡ self.old }
    {
        let place = self.place_of(number)?;
        let index = self.index_of(place);
        let moment = self.moments[index]?;
        self.moments[index] = None;
        Some(now.saturating_sub(moment).min(MAX_RTT_SAMPLE_US))
    }

    /// Returns the index of the time of the Full ACK after which `place` others were noted.
    fn index_of(&self, place: usize) -> usize
        requires { place < 64 }
        ensures value { result ≡ (self.now.at + (63 - place)) % 64 }
        ensures inside { result < 64 }
    {
        (self.at + (FULL_ACKS_KEPT - 1 - place)) % FULL_ACKS_KEPT
    }
}

/// Returns the number of Full ACKs that were sent after the one with this number, if `next` is the number of the next
/// one. None if that is 64 or more, or if `number` is 0.
fn steps_back(next: u32, number: u32) -> Option<usize>
    requires { 0 < next }
    ensures back { (count : ℕ) → next ≡ ack_number count → IsStepsBack number count result }
    ensures below { IfSome result (λ steps. steps < 64) }
{
    if number == 0 {
        return None;
    }
    let steps = if number < next {
        next - 1 - number
    } else {
        LAST_NUMBER - number + (next - 1)
    };
    if (steps as usize) < FULL_ACKS_KEPT {
        Some(steps as usize)
    } else {
        None
    }
}
