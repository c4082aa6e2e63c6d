//! The ring of stored packets, with their payloads.

ghost use Rattle.std.specs.Prelude.{◌≡◌, ℕ, ◌+◌, ◌-◌, ◌^◌, ◌<◌, ◌≤◌, ◌/◌, min, max, length, IfOk, vec_len, slice_get, nat_le, nat_lt, ◌==◌};
ghost use Rattle.std.specs.Prelude.{◌&&◌, true, false, Some, None, if◌then◌else◌};
ghost use Rattle.srt_types.specs.Counts.{message_of};
ghost use Rattle.srt_ring.specs.Buffers.{slot_of};
ghost use Rattle.srt_ring.specs.Ring.{width_of as width_in, first_of, warm_of};
ghost use Rattle.srt_sendbuf.specs.inside.Hints.{hint_at};
ghost use Rattle.srt_sendbuf.specs.Marks.{is_lost};

use crate::hints::{BLOCK, Hints};
use circular_buffer::HeapCircularBuffer;
use srt_ring::PayloadRing;
use srt_types::Msg26;
use std::alloc::{AllocError, Global};

/// The data of a packet except its payload.
#[derive(Clone, Copy, Debug, PartialEq, Eq)]
pub struct PacketRecord {
    /// The time at which its payload was queued, in microseconds.
    pub origin: u64,
    /// Its message number.
    pub message: Msg26,
    /// Whether it is marked as lost, so that it is sent again.
    pub lost: bool,
}

/// A half-open interval of places that are all lost.
#[derive(Clone, Copy, Debug)]
pub struct Marked {
    /// The first place.
    pub from: usize,
    /// The place after the last.
    pub end: usize,
}

/// The stored packets, oldest first, and a payload buffer for each place of the width. A *place* is a distance from
/// the oldest packet.
#[derive(Drop)]
pub struct Ring {
    places: HeapCircularBuffer<PacketRecord>,
    payloads: PayloadRing,
    /// Flags for the blocks of slots that the search for lost packets can skip.
    hints: Hints,
    /// Number of calls of `mark` since `open`; stops at 2^64 - 1. No code reads it: contracts use it to bound the work
    /// for a loss list.
    marks: u64,
    ghost fits: { length places.items ≤ places.capacity },
    ghost as_many: { width_in payloads ≡ places.capacity },
    ghost warm_free: { warm_of payloads + length places.items ≤ places.capacity },
    ghost hinted: { (d : ℕ) → hint_at hints (slot_of places.capacity (first_of payloads) d) ≡ false → is_lost (slice_get places.items d) ≡ false },
}

impl Ring {
    ghost use Rattle.srt_ring.specs.Ring.{payload_at};
    ghost use Rattle.srt_sendbuf.specs.Places.{kept_at, kept_of, lost_at, length_of, width_of, marks_of, is_old, IsPut, IsFree};

    /// Allocates an empty ring of `width` places. The only call that allocates; the error is a failed allocation.
    /// O(width).
    pub fn open(alloc: Global, width: usize) -> Result<Ring, AllocError>
        requires some { 0 < width }
        requires narrow { width ≤ 8192 }
        ensures { IfOk result (λ r. (width_of r ≡ width) × (length_of r ≡ 0)) }
    {
        Ok(Ring {
            places: HeapCircularBuffer::with_capacity(alloc, width)?,
            payloads: PayloadRing::open(alloc, width)?,
            hints: Hints::new(),
            marks: 0,
        })
    }

    /// Returns the number of stored packets.
    pub fn len(&self) -> usize
        ensures value { result ≡ length_of self.now }
        ensures fits { result ≤ width_of self.now }
        ensures narrow { result ≤ 8192 }
    {
        self.places.len()
    }

    /// Returns the number of places, 1 to 8192.
    pub fn width(&self) -> usize
        ensures value { result ≡ width_of self.now }
        ensures some { 0 < result }
        ensures narrow { result ≤ 8192 }
    {
        self.places.capacity()
    }

    /// Returns the bytes of a place's payload.
    pub fn payload(&self, at: usize) -> &[u8]
        requires { at < width_of self.now }
        ensures value { result.now ≡ payload_at self.now.payloads at }
        ensures fits { length result.now ≤ 1456 }
    {
        self.payloads.payload(at)
    }

    /// Appends a packet that isn't lost. The ring must have a free place. One copy.
    pub fn put(&mut self, origin: u64, message: Msg26, payload: &[u8])
        requires room { length_of self.old < width_of self.old }
        requires fits { length payload.now ≤ 1456 }
        ensures width { width_of self.new ≡ width_of self.old }
        ensures length { length_of self.new ≡ length_of self.old + 1 }
        ensures kept { IsPut (record { origin = origin; message = message_of message; payload = payload.now }) self.old self.new }
        ensures lost { (d : ℕ) → lost_at self.new d ≡ lost_at self.old d }
    {
        self.warm_up();
        self.push(origin, message, payload);
    }

    /// Moves a warm buffer to the first free place, if there is one. See `PayloadRing`.
    fn warm_up(&mut self)
        requires room { length_of self.old < width_of self.old }
        ensures width { width_of self.new ≡ width_of self.old }
        ensures length { length_of self.new ≡ length_of self.old }
        ensures kept { (d : ℕ) → kept_at self.new d ≡ kept_at self.old d }
        ensures lost { (d : ℕ) → lost_at self.new d ≡ lost_at self.old d }
        ensures free { warm_of self.new.payloads + length_of self.new < width_of self.new }
    {
        let taken = self.places.len();
        match self.payloads.take_warm() {
            Some(other) => self.payloads.exchange(taken, other),
            None => {}
        }
    }

    /// Appends a packet, and copies its payload into the buffer of its place.
    fn push(&mut self, origin: u64, message: Msg26, payload: &[u8])
        requires room { warm_of self.old.payloads + length_of self.old < width_of self.old }
        requires fits { length payload.now ≤ 1456 }
        ensures width { width_of self.new ≡ width_of self.old }
        ensures length { length_of self.new ≡ length_of self.old + 1 }
        ensures kept { IsPut (record { origin = origin; message = message_of message; payload = payload.now }) self.old self.new }
        ensures lost { (d : ℕ) → lost_at self.new d ≡ lost_at self.old d }
    {
        self.payloads.set(self.places.len(), payload);
        self.places.push_back(PacketRecord {
            origin,
            message,
            lost: false,
        });
    }

    /// Removes the oldest packet, if there is one. O(1).
    pub fn slide(&mut self)
        ensures width { width_of self.new ≡ width_of self.old }
        ensures length { length_of self.new ≡ length_of self.old - 1 }
        ensures kept { (d : ℕ) → kept_at self.new d ≡ kept_at self.old (d + 1) }
        ensures lost { (d : ℕ) → lost_at self.new d ≡ lost_at self.old (d + 1) }
    {
        let _ = self.places.pop_front();
        self.payloads
            .advance(self.places.capacity() - self.places.len());
    }

    /// Removes the `count` oldest packets. O(count).
    pub fn slide_by(&mut self, count: usize)
        ensures width { width_of self.new ≡ width_of self.old }
        ensures length { length_of self.new ≡ length_of self.old - count }
        ensures kept { (d : ℕ) → kept_at self.new d ≡ kept_at self.old (d + count) }
        ensures lost { (d : ℕ) → lost_at self.new d ≡ lost_at self.old (d + count) }
    {
        for _ in 0..count {
            self.slide();
        }
    }

    /// Sets whether the packet of a place is lost. O(1).
    fn mark(&mut self, at: usize, lost: bool)
        requires { at < length_of self.old }
        ensures width { width_of self.new ≡ width_of self.old }
        ensures length { length_of self.new ≡ length_of self.old }
        ensures kept { (d : ℕ) → kept_at self.new d ≡ kept_at self.old d }
        ensures lost { (d : ℕ) → lost_at self.new d ≡ (if d == at then lost else lost_at self.old d) }
        ensures marks { marks_of self.new ≡ min (marks_of self.old + 1) (2 ^ 64 - 1) }
    {
        self.marks = self.marks.saturating_add(1);
        let slot = self.payloads.slot(at);
        if lost {
            self.hints.set(slot, true);
        }
        if let Some(place) = self.places.get_mut(at) {
            place.lost = lost;
        }
    }

    /// Marks the packet of a place as not lost. O(1).
    pub fn unmark(&mut self, at: usize)
        requires { at < length_of self.old }
        ensures width { width_of self.new ≡ width_of self.old }
        ensures length { length_of self.new ≡ length_of self.old }
        ensures kept { (d : ℕ) → kept_at self.new d ≡ kept_at self.old d }
        ensures lost { (d : ℕ) → lost_at self.new d ≡ (if d == at then false else lost_at self.old d) }
    {
        self.mark(at, false);
    }

    /// Whether the packet of a place is lost; false past the last. O(1).
    pub fn is_lost(&self, at: usize) -> bool
        ensures { result ≡ lost_at self.now at }
    {
        match self.places.get(at) {
            Some(place) => place.lost,
            None => false,
        }
    }

    /// Returns the first lost place from `from` on and before `end`; `end` if there is none. Inspects each place.
    fn walk(&self, from: usize, end: usize) -> usize
        requires { from ≤ end }
        ensures low { from ≤ result }
        ensures high { result ≤ end }
        ensures before { (d : ℕ) → from ≤ d → d < result → lost_at self.now d ≡ false }
        ensures here { result < end → lost_at self.now result ≡ true }
    {
        for at in from..end {
            if self.is_lost(at) {
                return at;
            }
        }
        end
    }

    /// Returns the place after the last one whose slot is in the same block, before the ring's slots wrap.
    fn block_end(&self, at: usize) -> usize
        requires { at < width_of self.now }
        ensures { at < result }
    {
        let slot = self.payloads.slot(at);
        let left = BLOCK - slot % BLOCK;
        at + left.min(self.places.capacity() - slot)
    }

    /// Whether no place of a slot's block is lost. Inspects each of its 64 slots.
    fn is_free(&self, slot: usize) -> bool
        requires { slot < width_of self.now }
        ensures { result ≡ true → IsFree (slot / 64) self.now }
    {
        let start = slot / BLOCK * BLOCK;
        let end = (start + BLOCK).min(self.places.capacity());
        for slot in start..end {
            if self.is_lost(self.payloads.place_of_slot(slot)) {
                return false;
            }
        }
        true
    }

    /// Turns off the flag of a place's block if none of its places is lost.
    fn settle(&mut self, at: usize)
        requires { at < width_of self.old }
        ensures width { width_of self.new ≡ width_of self.old }
        ensures length { length_of self.new ≡ length_of self.old }
        ensures kept { (d : ℕ) → kept_at self.new d ≡ kept_at self.old d }
        ensures lost { (d : ℕ) → lost_at self.new d ≡ lost_at self.old d }
    {
        let slot = self.payloads.slot(at);
        if self.is_free(slot) {
            self.hints.set(slot, false);
        }
    }

    /// Returns the next place after `at` whose block's flag is on; at most `end`, or the place where the ring's slots
    /// wrap. No place before it is lost.
    fn skip(&self, at: usize, end: usize) -> usize
        requires order { at < end }
        requires inside { end ≤ width_of self.now }
        requires off { hint_at self.now.hints (slot_of (width_of self.now) (first_of self.now.payloads) at) ≡ false }
        ensures low { at < result }
        ensures high { result ≤ end }
        ensures off { (d : ℕ) → at ≤ d → d < result → hint_at self.now.hints (slot_of (width_of self.now) (first_of self.now.payloads) d) ≡ false }
    {
        let slot = self.payloads.slot(at);
        let last = (slot + (end - at)).min(self.places.capacity());
        at + (self.hints.skip(slot, last) - slot)
    }

    /// Returns the place at which the search for a lost place continues after `at`, which isn't lost. No place before
    /// it is lost. Skips blocks whose flag is off, and turns off the flag of a block in which it found no lost place.
    fn next_candidate(&mut self, at: usize, end: usize) -> usize
        requires order { at < end }
        requires inside { end ≤ length_of self.old }
        requires not_lost { lost_at self.old at ≡ false }
        ensures width { width_of self.new ≡ width_of self.old }
        ensures length { length_of self.new ≡ length_of self.old }
        ensures kept { (d : ℕ) → kept_at self.new d ≡ kept_at self.old d }
        ensures lost { (d : ℕ) → lost_at self.new d ≡ lost_at self.old d }
        ensures low { at < result }
        ensures high { result ≤ end }
        ensures before { (d : ℕ) → at ≤ d → d < result → lost_at self.old d ≡ false }
    {
        if !self.hints.get(self.payloads.slot(at)) {
            return self.skip(at, end);
        }
        let past = self.block_end(at).min(end);
        let found = self.walk(at + 1, past);
        if found == past {
            self.settle(at);
        }
        found
    }

    /// Returns the first lost place from `from` on and before `end`; `end` if there is none. Linear in the blocks that
    /// it skips, and in the places of blocks that had a lost place since a search last passed them.
    pub fn find_lost(&mut self, from: usize, end: usize) -> usize
        requires order { from ≤ end }
        requires inside { end ≤ length_of self.old }
        ensures width { width_of self.new ≡ width_of self.old }
        ensures length { length_of self.new ≡ length_of self.old }
        ensures kept { (d : ℕ) → kept_at self.new d ≡ kept_at self.old d }
        ensures lost { (d : ℕ) → lost_at self.new d ≡ lost_at self.old d }
        ensures low { from ≤ result }
        ensures high { result ≤ end }
        ensures before { (d : ℕ) → from ≤ d → d < result → lost_at self.old d ≡ false }
        ensures here { result < end → lost_at self.old result ≡ true }
    {
        let mut at = from;
        while at < end {
            if self.is_lost(at) {
                return at;
            }
            at = self.next_candidate(at, end);
        }
        end
    }

    /// Marks the places from `from` on and before `end` as lost. Linear in their number.
    pub fn mark_all(&mut self, from: usize, end: usize)
        requires order { from ≤ end }
        requires inside { end ≤ length_of self.old }
        ensures width { width_of self.new ≡ width_of self.old }
        ensures length { length_of self.new ≡ length_of self.old }
        ensures kept { (d : ℕ) → kept_at self.new d ≡ kept_at self.old d }
        ensures lost { (d : ℕ) → lost_at self.new d ≡ (if nat_le from d && nat_lt d end then true else lost_at self.old d) }
        ensures marks { marks_of self.new ≤ marks_of self.old + (end - from) }
    {
        for at in from..end {
            self.mark(at, true);
        }
    }

    /// Marks the places from `from` on and before `end` as lost. `run` is an interval that is already marked and
    /// doesn't begin later: only places past its end are marked. It grows to the greater end, or becomes the new
    /// interval if that one begins past its end. So calls with the same `run` mark each place once.
    pub fn mark_past(&mut self, run: &mut Marked, from: usize, end: usize)
        requires order { from ≤ end }
        requires inside { end ≤ length_of self.old }
        requires later { run.old.from ≤ from }
        requires marked { (d : ℕ) → run.old.from ≤ d → d < run.old.end → lost_at self.old d ≡ true }
        ensures width { width_of self.new ≡ width_of self.old }
        ensures length { length_of self.new ≡ length_of self.old }
        ensures kept { (d : ℕ) → kept_at self.new d ≡ kept_at self.old d }
        ensures lost { (d : ℕ) → lost_at self.new d ≡ (if nat_le from d && nat_lt d end then true else lost_at self.old d) }
        ensures marked { (d : ℕ) → run.new.from ≤ d → d < run.new.end → lost_at self.new d ≡ true }
        ensures from { run.new.from ≤ from }
        ensures end { run.new.end ≡ max run.old.end end }
        ensures marks { marks_of self.new + run.old.end ≤ marks_of self.old + run.new.end }
    {
        if run.end < from {
            self.mark_all(from, end);
            run.from = from;
            run.end = end;
        } else if run.end < end {
            self.mark_all(run.end, end);
            run.end = end;
        }
    }

    /// Whether the packet of a place was queued before a time, in microseconds; false past the last, and for a time
    /// of 0 or less.
    #[inline(always)]
    pub fn is_before(&self, at: usize, before: i64) -> bool
        ensures { result ≡ is_old before (kept_at self.now at) }
    {
        match self.places.get(at) {
            Some(place) => before > 0 && place.origin < before as u64,
            None => false,
        }
    }

    /// Returns the number of oldest packets that were queued before a time, in microseconds, up to the first that
    /// wasn't. Linear in the result.
    #[inline(always)]
    pub fn count_before(&self, before: i64) -> usize
        ensures fits { result ≤ length_of self.now }
        ensures before { (d : ℕ) → d < result → is_old before (kept_at self.now d) ≡ true }
        ensures here { result < length_of self.now → is_old before (kept_at self.now result) ≡ false }
    {
        let end = self.places.len();
        for at in 0..end {
            if !self.is_before(at, before) {
                return at;
            }
        }
        end
    }

    /// Returns the stored data of the packet of a place. None past the last.
    pub fn place(&self, at: usize) -> Option<PacketRecord>
        ensures { result ≡ slice_get self.now.places.items at }
    {
        match self.places.get(at) {
            Some(place) => Some(*place),
            None => None,
        }
    }
}
