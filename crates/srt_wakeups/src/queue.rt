//! A queue that threads share. What it has at any moment no clause can state. So code that uses one is generic over this trait:
//! what is known once a call has returned it can show only by the call.

use crossbeam_queue::ArrayQueue;
use std::sync::Wait;

/// A bounded queue of values, which any thread puts in and takes out.
pub trait SharedQueue<T> {
    ghost use Rattle.std.specs.Prelude.{◌≡◌, true, false, IfOk, IfErr, IfSome, IfNone};

    /// What is known once it had a free place.
    ghost had_place: { Self → Type 0 };

    /// What is known once it was full.
    ghost was_full: { Self → Type 0 };

    /// What is known once this value was put in.
    ghost was_put: { Self → T → Type 0 };

    /// What is known once this value was taken out.
    ghost was_taken: { Self → T → Type 0 };

    /// What is known once it was empty.
    ghost was_empty: { Self → Type 0 };

    /// Whether it is full.
    fn has_no_place(&self) -> bool
        ensures full { result ≡ true → was_full self.now }
        ensures place { result ≡ false → had_place self.now };

    /// Puts a value in, the last one. The error returns it: the queue was full.
    fn put<R: Wait>(&self, rt: &R, value: T) -> Result<(), T>
        ensures put { IfOk result (λ _. was_put self.now value) }
        ensures full { IfErr result (λ _. was_full self.now) };

    /// Takes the value out that has waited longest. `None` if none waits.
    fn take<R: Wait>(&self, rt: &R) -> Option<T>
        ensures taken { IfSome result (λ value. was_taken self.now value) }
        ensures empty { IfNone result (was_empty self.now) };
}

impl<T> SharedQueue<T> for ArrayQueue<T> {
    ghost had_place = { λ _. Unit {0} };

    ghost was_full = { λ _. Unit {0} };

    ghost was_put = { λ _ _. Unit {0} };

    ghost was_taken = { λ _ _. Unit {0} };

    ghost was_empty = { λ _. Unit {0} };

    fn has_no_place(&self) -> bool {
        self.is_full()
    }

    fn put<R: Wait>(&self, rt: &R, value: T) -> Result<(), T> {
        self.push(rt, value)
    }

    fn take<R: Wait>(&self, rt: &R) -> Option<T> {
        self.pop(rt)
    }
}
