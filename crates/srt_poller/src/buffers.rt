//! The buffers of datagrams that routes have processed, which return with replies. They are filled again, so that the copies
//! of a steady stream seldom allocate: what one thread allocates and another one frees costs both a lock.

ghost use Rattle.std.specs.Prelude.{◌≡◌, ◌≤◌, [], IfOk, OnErr};
ghost use Rattle.srt_poller.specs.Buffers.{Allocates, IsCopiedAnew, kept_with, kept_without};
ghost use Rattle.std.specs.Vec.{vec_capacity};

use crate::memory::{MemoryRefused, append, buffer_with_room};
use crate::tuning::SPARE_BUFFERS;
use arrayvec::ArrayVec;
use srt_mailbox::BUFFER_ROOM;
use std::alloc::Global;

/// Buffers to be filled again, at most 512. Their content is ignored.
#[derive(Drop)]
pub(crate) struct Buffers {
    // the one that was returned last is used first, since it is likely to be in a cache
    kept: ArrayVec<Vec<u8>, SPARE_BUFFERS, Global>,
}

impl Buffers {
    /// None yet. Doesn't allocate.
    pub(crate) fn new(alloc: Global) -> Buffers
        ensures { result.kept.items ≡ [] }
    {
        Buffers {
            kept: ArrayVec::new_in(alloc),
        }
    }

    /// Keeps a buffer, if there is one and there is room for it.
    #[inline(always)]
    pub(crate) fn keep(&mut self, buffer: Option<Vec<u8>>)
        ensures { self.new.kept.items ≡ kept_with buffer self.old.kept.items }
    {
        if let Some(buffer) = buffer {
            let _ = self.kept.try_push(buffer);
        }
    }

    /// Returns a copy of these bytes. Allocates if there are any and no buffer is kept, or the one that was kept last has
    /// less room; an error is evidence that this was refused. A new buffer has room for any packet's bytes, so that it can be
    /// filled again.
    #[inline(always)]
    pub(crate) fn copy_of(&mut self, alloc: Global, bytes: &[u8]) -> Result<Vec<u8>, MemoryRefused>
        ensures copied { IfOk result (λ buffer. buffer.items ≡ bytes.now) }
        ensures refused { OnErr result (Allocates self.old bytes.now) }
        ensures kept { self.new.kept.items ≡ kept_without bytes.now self.old.kept.items }
        ensures room { IsCopiedAnew self.old bytes.now → IfOk result (λ buffer. 1456 ≤ vec_capacity buffer) }
    {
        if bytes.is_empty() {
            return Ok(Vec::new(alloc));
        }
        let mut buffer = match self.kept.pop() {
            Some(buffer) => buffer,
            None => buffer_with_room(alloc, BUFFER_ROOM)?,
        };
        buffer.clear();
        append(&mut buffer, bytes)?;
        Ok(buffer)
    }
}
