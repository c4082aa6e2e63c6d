//! The bijection from slots of a ring to payload buffers.

ghost use Rattle.std.specs.Prelude.{◌≡◌, ◌≢◌, ℕ, ◌<◌, IfOk, vec_len, slice_index_or};

use std::alloc::{AllocError, Global};

/// The index of each slot's payload buffer. No two slots share a buffer, so slots can exchange their buffers without a
/// loss of bytes.
#[derive(Drop)]
pub struct BufferOrder {
    buffers: Vec<usize>,
    pub ghost inside: { (slot : ℕ) → slot < vec_len buffers → slice_index_or buffers.items slot 0 < vec_len buffers },
    pub ghost apart: { (one other : ℕ) → one < vec_len buffers → other < vec_len buffers
        → slice_index_or buffers.items one 0 ≡ slice_index_or buffers.items other 0
        → one ≡ other },
}

impl BufferOrder {
    ghost use Rattle.srt_ring.specs.Slots.{buffer_of_slot, slots_of};

    /// Returns a map of `width` slots, each with the buffer of the same index. Allocates; an error if the allocation
    /// fails. O(width).
    pub fn open(alloc: Global, width: usize) -> Result<BufferOrder, AllocError>
        ensures { IfOk result (λ o. slots_of o ≡ width) }
    {
        let mut buffers = Vec::with_capacity(alloc, width)?;
        for at in 0..width {
            buffers.push(at)?;
        }
        Ok(BufferOrder { buffers })
    }

    /// Returns the index of a slot's buffer. O(1).
    pub fn buffer(&self, slot: usize) -> usize
        requires { slot < slots_of self.now }
        ensures value { result ≡ buffer_of_slot self.now slot }
        ensures inside { result < slots_of self.now }
    {
        self.buffers[slot]
    }

    /// Exchanges the buffers of two slots. O(1).
    pub fn swap(&mut self, one: usize, other: usize)
        requires one { one < slots_of self.old }
        requires other { other < slots_of self.old }
        ensures slots { slots_of self.new ≡ slots_of self.old }
        ensures one { buffer_of_slot self.new one ≡ buffer_of_slot self.old other }
        ensures other { buffer_of_slot self.new other ≡ buffer_of_slot self.old one }
        ensures others { (slot : ℕ) → slot ≢ one → slot ≢ other → buffer_of_slot self.new slot ≡ buffer_of_slot self.old slot }
    {
        self.buffers.swap(one, other);
    }
}
