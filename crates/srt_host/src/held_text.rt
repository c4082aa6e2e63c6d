//! Text of the log that waits while nobody reads it.

ghost use Rattle.std.specs.Prelude.{◌≡◌, ◌↔◌, ◌+◌, ◌≤◌, ◌<◌, ◌++◌, [], true, false, length, drop, min, take, IfOk};

use arrayvec::ArrayVec;
use std::alloc::{AllocError, Global};

/// The most text that is kept, in bytes: the lines of one to ten seconds at the log's pace.
pub(crate) const MAX_KEPT: usize = 65_536;

/// The most text that is written by one call, in bytes: a pipe that is ready takes as much without a wait.
pub(crate) const MAX_WRITTEN: usize = 4096;

/// Text that waits to be written, the oldest byte first. What was written takes room until nothing waits.
#[derive(Drop)]
pub(crate) struct HeldText {
    // what waits, behind what was written since nothing waited
    kept: Box<ArrayVec<u8, MAX_KEPT>>,
    // how many bytes of it were written
    written: usize,
    ghost within: { written ≤ length kept.value.items },
    ghost few: { length kept.value.items ≤ 65536 },
}

impl HeldText {
    ghost use Rattle.srt_host.specs.Held.{held_in, kept_in};

    /// Returns one in which nothing waits. Allocates its room; the only error is out of memory.
    pub fn open(alloc: Global) -> Result<HeldText, AllocError>
        ensures held { IfOk result (λ text. held_in text ≡ []) }
        ensures kept { IfOk result (λ text. kept_in text ≡ []) }
    {
        let kept = Box::new(alloc, ArrayVec::new())?;
        Ok(HeldText { kept, written: 0 })
    }

    /// Whether nothing waits.
    pub fn is_empty(&self) -> bool
        ensures { (result ≡ true) ↔ (held_in self.now ≡ []) }
    {
        self.written == self.kept.len()
    }

    /// Lets a text wait behind what waits already. Returns false, and changes nothing, if there is no room for all of it.
    pub fn hold(&mut self, text: &[u8]) -> bool
        ensures held { result ≡ true → held_in self.new ≡ held_in self.old ++ text.now }
        ensures full { result ≡ false → (self.new ≡ self.old) × (65536 < length (kept_in self.old) + length text.now) }
    {
        self.kept.try_extend_from_slice(text).is_ok()
    }

    /// Returns the oldest bytes that wait, at most 4,096.
    pub fn next(&self) -> &[u8]
        ensures { result.now ≡ take 4096 (held_in self.now) }
    {
        let end = MAX_WRITTEN.min(self.kept.len() - self.written) + self.written;
        &self.kept.as_slice()[self.written..end]
    }

    /// Takes the oldest bytes away after they were written. All room is there again once nothing waits.
    pub fn took(&mut self, count: usize)
        requires { count ≤ length (held_in self.old) }
        ensures held { held_in self.new ≡ drop count (held_in self.old) }
        ensures room { held_in self.new ≡ [] → kept_in self.new ≡ [] }
    {
        self.written += count;
        if self.is_empty() {
            self.kept.clear();
            self.written = 0;
        }
    }
}
