//! Numbers and marks that threads share. What one has at any moment no clause can state. So code that reads or writes one is
//! generic over these traits: what is known once a call has returned it can show only by the call.

use crate::bit_set::AtomicBitSet;
use std::sync::atomic::{AtomicIn, Ordering, Rule};

/// A number that threads read and write.
pub trait SharedWord {
    ghost use Rattle.std.specs.Prelude.{ℕ};
    ghost use Rattle.std.specs.Sync.Atomic.Rule.{StaysUnderAdd};

    /// What is known of each number that it has.
    ghost keeps: { ℕ → Type 0 };

    /// What is known once this number was read.
    ghost had: { Self → ℕ → Type 0 };

    /// What is known once this number was written.
    ghost written: { Self → ℕ → Type 0 };

    /// What is known once one was added.
    ghost counted: { Self → Type 0 };

    /// Reads it.
    fn read(&self) -> u64
        ensures keeps { keeps result }
        ensures had { had self.now result };

    /// Writes this number.
    fn write(&self, number: u64)
        requires { keeps number }
        ensures { written self.now number };

    /// Adds one, wrapping.
    fn add_one(&self)
        requires { StaysUnderAdd keeps 1 }
        ensures { counted self.now };
}

impl<K: Rule> SharedWord for AtomicIn<K> {
    ghost keeps = { K.invariant };

    ghost had = { λ _ _. Unit {0} };

    ghost written = { λ _ _. Unit {0} };

    ghost counted = { λ _. Unit {0} };

    fn read(&self) -> u64 {
        self.load(Ordering::SeqCst)
    }

    fn write(&self, number: u64) {
        self.store(number, Ordering::SeqCst);
    }

    fn add_one(&self) {
        self.fetch_add(1, Ordering::SeqCst);
    }
}

/// Marks of routes that threads set and clear.
pub trait SharedMarks {
    ghost use Rattle.std.specs.Prelude.{◌≡◌, ◌<◌, ◌≤◌, ℕ, true, false};

    /// What is known of a route once it was marked.
    ghost marked: { Self → (route : ℕ) → Type 0 };

    /// What is known of a route that had the mark, or is beyond the marks.
    ghost was_marked: { Self → (route : ℕ) → Type 0 };

    /// What is known of a route that had no mark.
    ghost was_clear: { Self → (route : ℕ) → Type 0 };

    /// What is known of a route once its mark was cleared.
    ghost cleared: { Self → (route : ℕ) → Type 0 };

    /// Marks a route. False if it had the mark, or is beyond the marks.
    fn mark(&self, route: usize) -> bool
        ensures marked { result ≡ true → marked self.now route }
        ensures before { result ≡ false → was_marked self.now route };

    /// The first route from this one on that has a mark; the number of routes if there is none.
    fn next_marked(&self, route: usize) -> usize
        ensures { (r : ℕ) → route ≤ r → r < result → was_clear self.now r };

    /// Clears the mark of a route.
    fn unmark(&self, route: usize)
        ensures { cleared self.now route };
}

impl SharedMarks for AtomicBitSet {
    ghost marked = { λ _ _. Unit {0} };

    ghost was_marked = { λ _ _. Unit {0} };

    ghost was_clear = { λ _ _. Unit {0} };

    ghost cleared = { λ _ _. Unit {0} };

    fn mark(&self, route: usize) -> bool {
        self.set(route)
    }

    fn next_marked(&self, route: usize) -> usize {
        self.next_from(route)
    }

    fn unmark(&self, route: usize) {
        self.clear(route);
    }
}
