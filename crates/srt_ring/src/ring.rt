//! A ring of payloads, addressed by their distance from its front.

ghost use Rattle.std.specs.Prelude.{◌≡◌, ◌≢◌, ℕ, ◌+◌, ◌<◌, ◌≤◌, ◌==◌, [], length, None, IfOk, IfSome, vec_len, if◌then◌else◌};
ghost use Rattle.srt_ring.specs.Slots.{slots_of};

use crate::buffers::PayloadBuffer;
use crate::order::BufferOrder;
use std::alloc::{AllocError, Global};

/// A ring of 1 to 8192 places with a payload of 0 to 1456 bytes each. A place is a distance from the front, which
/// advances.
///
/// Buffers never move. A place's payload keeps its slot until the front passes it, and each slot has a dedicated
/// buffer. The buffers that the front passed last are *warm*: probably still in the processor's caches. They are used
/// first for new payloads, so that a steady stream uses few buffers for any width.
#[derive(Drop)]
pub struct PayloadRing {
    buffers: Vec<PayloadBuffer>,
    order: BufferOrder,
    /// The slot of the front's place. The slots of the other places follow in order, and wrap at the end of the ring.
    first: usize,
    /// The number of warm buffers. They belong to the last places of the ring.
    warm: usize,
    pub ghost as_many: { vec_len buffers ≡ slots_of order },
    pub ghost first_in: { first < slots_of order },
    pub ghost narrow: { slots_of order ≤ 8192 },
    pub ghost warm_in: { warm ≤ slots_of order },
}

impl PayloadRing {
    ghost use Rattle.srt_ring.specs.Buffers.{slot_of};
    ghost use Rattle.srt_ring.specs.Ring.{width_of, first_of, warm_of, payload_at};

    /// Returns a ring of `width` empty payloads. The only function that allocates; an error if an allocation fails.
    /// O(width).
    pub fn open(alloc: Global, width: usize) -> Result<PayloadRing, AllocError>
        requires some { 0 < width }
        requires narrow { width ≤ 8192 }
        ensures { IfOk result (λ r. (width_of r ≡ width) × (first_of r ≡ 0) × (warm_of r ≡ 0)) }
    {
        let mut buffers = Vec::with_capacity(alloc, width)?;
        for _ in 0..width {
            buffers.push(PayloadBuffer::new())?;
        }
        Ok(PayloadRing {
            buffers,
            order: BufferOrder::open(alloc, width)?,
            first: 0,
            warm: 0,
        })
    }

    /// Returns the number of places, 1 to 8192.
    pub fn width(&self) -> usize
        ensures value { result ≡ width_of self.now }
        ensures some { 0 < result }
        ensures narrow { result ≤ 8192 }
    {
        self.buffers.len()
    }

    /// Returns the slot of a place, which must be below the width. O(1).
    pub fn slot(&self, at: usize) -> usize
        requires { at < width_of self.now }
        ensures value { result ≡ slot_of (width_of self.now) (first_of self.now) at }
        ensures inside { result < width_of self.now }
    {
        let at = self.first + at;
        if at < self.buffers.len() {
            at
        } else {
            at - self.buffers.len()
        }
    }

    /// Returns the place of a slot, the inverse of `slot`. It changes whenever the front advances. O(1).
    pub fn place_of_slot(&self, slot: usize) -> usize
        requires { slot < width_of self.now }
        ensures { (d : ℕ) → d < width_of self.now → slot_of (width_of self.now) (first_of self.now) d ≡ slot → d ≡ result }
    {
        if slot < self.first {
            slot + self.buffers.len() - self.first
        } else {
            slot - self.first
        }
    }

    /// Borrows the bytes of a place's payload: no byte is copied. O(1).
    pub fn payload(&self, at: usize) -> &[u8]
        requires { at < width_of self.now }
        ensures value { result.now ≡ payload_at self.now at }
        ensures fits { length result.now ≤ 1456 }
    {
        let index = self.order.buffer(self.slot(at));
        self.buffers[index].bytes()
    }

    /// Replaces the payload of a place by these bytes, at most 1456. Copies them once.
    pub fn set(&mut self, at: usize, bytes: &[u8])
        requires inside { at < width_of self.old }
        requires fits { length bytes.now ≤ 1456 }
        ensures width { width_of self.new ≡ width_of self.old }
        ensures first { first_of self.new ≡ first_of self.old }
        ensures warm { warm_of self.new ≡ warm_of self.old }
        ensures here { payload_at self.new at ≡ bytes.now }
        ensures others { (d : ℕ) → d < width_of self.old → (d ≡ at → ⊥) → payload_at self.new d ≡ payload_at self.old d }
    {
        let index = self.order.buffer(self.slot(at));
        self.buffers[index].set(bytes);
    }

    /// Takes one warm buffer: returns the first place that has one, whose buffer then is no longer warm. None if no
    /// buffer is warm. No payload changes. O(1).
    pub fn take_warm(&mut self) -> Option<usize>
        ensures some { IfSome result (λ at. (at + warm_of self.old ≡ width_of self.old) × (warm_of self.old ≡ warm_of self.new + 1)) }
        ensures none { result ≡ None → (warm_of self.old ≡ 0) × (self.new ≡ self.old) }
        ensures width { width_of self.new ≡ width_of self.old }
        ensures first { first_of self.new ≡ first_of self.old }
        ensures payloads { (d : ℕ) → payload_at self.new d ≡ payload_at self.old d }
    {
        if self.warm == 0 {
            return None;
        }
        let at = self.buffers.len() - self.warm;
        self.warm -= 1;
        Some(at)
    }

    /// Exchanges the payloads of two places, by their buffers: no byte is copied. O(1).
    pub fn exchange(&mut self, one: usize, other: usize)
        requires one { one < width_of self.old }
        requires other { other < width_of self.old }
        ensures width { width_of self.new ≡ width_of self.old }
        ensures first { first_of self.new ≡ first_of self.old }
        ensures warm { warm_of self.new ≡ warm_of self.old }
        ensures one { payload_at self.new one ≡ payload_at self.old other }
        ensures other { payload_at self.new other ≡ payload_at self.old one }
        ensures others { (d : ℕ) → d < width_of self.old → d ≢ one → d ≢ other → payload_at self.new d ≡ payload_at self.old d }
    {
        let one = self.slot(one);
        let other = self.slot(other);
        self.order.swap(one, other);
    }

    /// Advances the front by one place. The slot and the buffer of the place that it passes become those of the last
    /// place, and that buffer is warm. `free` is the number of free places, and the maximum number of warm buffers
    /// afterwards. O(1).
    pub fn advance(&mut self, free: usize)
        requires { free ≤ width_of self.old }
        ensures width { width_of self.new ≡ width_of self.old }
        ensures first { first_of self.new ≡ (if first_of self.old + 1 == width_of self.old then 0 else first_of self.old + 1) }
        ensures warm { warm_of self.new ≤ free }
        ensures payloads { (d : ℕ) → d + 1 < width_of self.old → payload_at self.new d ≡ payload_at self.old (d + 1) }
    {
        self.warm = (self.warm + 1).min(free);
        self.first = if self.first + 1 == self.buffers.len() {
            0
        } else {
            self.first + 1
        };
    }
}
