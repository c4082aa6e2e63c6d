//! Evidence that an allocation was refused. Only the functions of this file make it, each where the allocator has just refused.

ghost use Rattle.std.specs.Prelude.{◌≡◌, ◌<◌, ◌≤◌, ◌+◌, ◌++◌, ◌∷◌, [], IfOk, OnOk, OnErr, length};
ghost use Rattle.std.specs.Vec.{vec_capacity};
ghost use Rattle.std.specs.Arc.{arc_value};
ghost use Rattle.mio.specs.Events.{items as events_in, capacity as events_capacity};

use mio::Events;
use srt_journal::Journal;
use std::alloc::Global;
use std::sync::Arc;

/// Evidence that an allocation was refused. Nothing else makes any.
#[derive(Drop)]
pub struct MemoryRefused {
    // private, so that nothing else makes any
    marker: (),
}

/// Returns an empty buffer with room for this many bytes.
#[inline(always)]
pub(crate) fn buffer_with_room(alloc: Global, room: usize) -> Result<Vec<u8>, MemoryRefused>
    ensures empty { IfOk result (λ buffer. buffer.items ≡ []) }
    ensures room { IfOk result (λ buffer. vec_capacity buffer ≡ room) }
{
    match Vec::with_capacity(alloc, room) {
        Ok(buffer) => Ok(buffer),
        Err(_) => Err(MemoryRefused { marker: () }),
    }
}

/// Appends these bytes. Allocates only if the buffer has too little room.
#[inline(always)]
pub(crate) fn append(buffer: &mut Vec<u8>, bytes: &[u8]) -> Result<(), MemoryRefused>
    ensures appended { OnOk result (buffer.new.items ≡ buffer.old.items ++ bytes.now) }
    ensures refused { OnErr result (vec_capacity buffer.old < length buffer.old.items + length bytes.now) }
    ensures room { vec_capacity buffer.old ≤ vec_capacity buffer.new }
{
    match buffer.extend_from_slice(bytes) {
        Ok(()) => Ok(()),
        Err(_) => Err(MemoryRefused { marker: () }),
    }
}

/// Returns a copy of these bytes.
pub(crate) fn copied(alloc: Global, bytes: &[u8]) -> Result<Vec<u8>, MemoryRefused>
    ensures { IfOk result (λ copy. copy.items ≡ bytes.now) }
{
    match Vec::from_slice(alloc, bytes) {
        Ok(copy) => Ok(copy),
        Err(_) => Err(MemoryRefused { marker: () }),
    }
}

/// Returns an empty list of events with room for this many.
pub(crate) fn events_with_room(alloc: Global, room: usize) -> Result<Events<Global>, MemoryRefused>
    ensures empty { IfOk result (λ events. events_in events ≡ []) }
    ensures room { IfOk result (λ events. events_capacity events ≡ room) }
{
    match Events::with_capacity(alloc, room) {
        Ok(events) => Ok(events),
        Err(_) => Err(MemoryRefused { marker: () }),
    }
}

/// Returns two handles of a value.
pub(crate) fn shared<T: Drop>(alloc: Global, value: T) -> Result<(Arc<T>, Arc<T>), MemoryRefused>
    ensures { IfOk result (λ r. (arc_value r.0 ≡ value) × (arc_value r.1 ≡ value)) }
{
    let Ok(ours) = Arc::new(alloc, value) else {
        return Err(MemoryRefused { marker: () });
    };
    match Arc::try_clone(&ours) {
        Ok(theirs) => Ok((ours, theirs)),
        Err(_) => Err(MemoryRefused { marker: () }),
    }
}

/// Appends a value. If memory is refused, it is lost, and the list stays.
pub(crate) fn push<T: Drop>(list: &mut Vec<T>, value: T) -> Result<(), MemoryRefused>
    ensures pushed { OnOk result (list.new.items ≡ list.old.items ++ value ∷ []) }
    ensures refused { OnErr result (list.new.items ≡ list.old.items) }
{
    match list.push(value) {
        Ok(()) => Ok(()),
        Err(_) => Err(MemoryRefused { marker: () }),
    }
}

/// The refused allocations of a device in memory, for contracts alone. Each is noted by its evidence.
#[derive(Drop)]
pub(crate) struct Refusals {
    journal: Journal,
}

impl Refusals {
    ghost use Rattle.srt_poller.specs.Scripts.{refusals};

    /// None yet.
    pub(crate) fn new() -> Refusals
        ensures { refusals result ≡ 0 }
    {
        Refusals {
            journal: Journal::new(),
        }
    }

    /// Notes one more.
    pub(crate) fn note(&mut self, _refused: MemoryRefused)
        ensures { refusals self.new ≡ refusals self.old + 1 }
    {
        self.journal.note(&[], &[], &[]);
    }
}
