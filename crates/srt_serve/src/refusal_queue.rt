//! The refusals that wait for a watcher.

ghost use Rattle.std.specs.Prelude.{◌≡◌, ◌<◌, IfOk};
ghost use Rattle.crossbeam_queue.specs.Passes.{queue_capacity};

use crate::evidence::{
    NoPlace, NothingWaits, TakenRefusal, WasPut, look_for_place, put, take_refusal,
};
use crossbeam_queue::ArrayQueue;
use srt_supervision::Refusal;
use std::alloc::{AllocError, Global};
use std::sync::Wait;

/// The refusals that wait for a watcher. What is taken out has to be reported to one.
#[derive(Drop)]
pub struct RefusalQueue {
    queue: ArrayQueue<Refusal>,
}

impl RefusalQueue {
    /// Allocates room for this many; an error means out of memory.
    pub fn open(alloc: Global, places: usize) -> Result<RefusalQueue, AllocError>
        requires { 0 < places }
        ensures { IfOk result (λ refusals. queue_capacity refusals.queue ≡ places) }
    {
        Ok(RefusalQueue {
            queue: ArrayQueue::new(alloc, places)?,
        })
    }

    /// Whether there is a place. The error is evidence that there was none.
    pub fn look_for_place(&self) -> Result<(), NoPlace> {
        look_for_place(&self.queue)
    }

    /// Puts a refusal into a place. The error is evidence that there was none; then the refusal is dropped.
    pub fn put<R: Wait>(&self, rt: &R, refusal: Refusal) -> Result<WasPut<Refusal>, NoPlace>
        ensures { IfOk result (λ put. put.value.value ≡ refusal) }
    {
        put(rt, &self.queue, refusal)
    }

    /// Takes the refusal that has waited longest. The error is evidence that none waits.
    pub fn take<R: Wait>(&self, rt: &R) -> Result<TakenRefusal, NothingWaits> {
        take_refusal(rt, &self.queue)
    }
}
