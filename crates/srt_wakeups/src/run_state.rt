//! What the threads of a run tell each other of it: that they run, that it is over, and that there is work. What such a value
//! has no clause can state. So the code of a thread is generic over these traits: what is known once a call has returned it
//! can show only by the call.

use crate::wakeups::Wakeups;
use std::sync::Wait;

/// Whether the threads of a run are there, and whether it is over.
pub trait RunState {
    ghost use Rattle.std.specs.Prelude.{◌≡◌, ℕ, true, false};

    /// What is known once the calling thread was counted as running.
    ghost came: { Self → Type 0 };

    /// What is known once all threads were there.
    ghost all_came: { Self → Type 0 };

    /// What is known once some were missing.
    ghost some_missing: { Self → Type 0 };

    /// What is known once the run was ended.
    ghost ended: { Self → Type 0 };

    /// What is known once the run was over.
    ghost was_over: { Self → Type 0 };

    /// What is known once it wasn't.
    ghost went_on: { Self → Type 0 };

    /// What is known once the workers were told that the first routes, this many, were ticked.
    ghost ticks_told: { Self → (routes : ℕ) → Type 0 };

    /// What is known once an outbox was marked as ready.
    ghost has_ready_outbox: { Self → Type 0 };

    /// What is known once none was.
    ghost outboxes_rest: { Self → Type 0 };

    /// As `Wakeups::arrive`.
    fn come(&self)
        ensures { came self.now };

    /// As `Wakeups::gather`.
    fn await_all<R: Wait>(&self, rt: &R) -> bool
        ensures all { result ≡ true → all_came self.now }
        ensures missing { result ≡ false → some_missing self.now };

    /// As `Wakeups::finish`.
    fn end_run(&self)
        ensures { ended self.now };

    /// As `Wakeups::is_done`.
    fn is_over(&self) -> bool
        ensures over { result ≡ true → was_over self.now }
        ensures on { result ≡ false → went_on self.now };

    /// As `Wakeups::ticked`.
    fn tell_ticks(&self, routes: usize)
        ensures { ticks_told self.now routes };

    /// As `Wakeups::any_outbox_ready`.
    fn is_an_outbox_ready(&self) -> bool
        ensures ready { result ≡ true → has_ready_outbox self.now }
        ensures rest { result ≡ false → outboxes_rest self.now };
}

impl RunState for Wakeups {
    ghost came = { λ _. Unit {0} };

    ghost all_came = { λ _. Unit {0} };

    ghost some_missing = { λ _. Unit {0} };

    ghost ended = { λ _. Unit {0} };

    ghost was_over = { λ _. Unit {0} };

    ghost went_on = { λ _. Unit {0} };

    ghost ticks_told = { λ _ _. Unit {0} };

    ghost has_ready_outbox = { λ _. Unit {0} };

    ghost outboxes_rest = { λ _. Unit {0} };

    fn come(&self) {
        self.arrive();
    }

    fn await_all<R: Wait>(&self, rt: &R) -> bool {
        self.gather(rt)
    }

    fn end_run(&self) {
        self.finish();
    }

    fn is_over(&self) -> bool {
        self.is_done()
    }

    fn tell_ticks(&self, routes: usize) {
        self.ticked(routes);
    }

    fn is_an_outbox_ready(&self) -> bool {
        self.any_outbox_ready()
    }
}

/// How a worker pauses between its rounds.
pub trait WorkerPauses {
    ghost use Rattle.std.specs.Prelude.{◌≡◌, ℕ};

    /// What is known once there had been this many notifications of workers.
    ghost saw: { Self → (seen : ℕ) → Type 0 };

    /// What is known once the worker napped, if there was no notification after this many.
    ghost napped: { Self → (seen : ℕ) → Type 0 };

    /// What is known once it rested so.
    ghost rested: { Self → (seen : ℕ) → Type 0 };

    /// What is known once it dozed so, by this number of routes.
    ghost dozed: { Self → (seen routes : ℕ) → Type 0 };

    /// What is known once a worker in reserve was woken, if there was one.
    ghost shared: { Self → Type 0 };

    /// As `Wakeups::notifications`.
    fn seen(&self) -> u64
        ensures { saw self.now result };

    /// As `Wakeups::nap`.
    fn take_nap<R: Wait>(&self, rt: &R, seen: u64)
        ensures { napped self.now seen };

    /// As `Wakeups::rest`.
    fn take_rest<R: Wait>(&self, rt: &R, seen: u64)
        ensures { rested self.now seen };

    /// As `Wakeups::doze`.
    fn take_doze<R: Wait>(&self, rt: &R, seen: u64, routes: u32)
        ensures { dozed self.now seen routes };

    /// As `Wakeups::wake_reserve`.
    fn share_work(&self)
        ensures { shared self.now };
}

impl WorkerPauses for Wakeups {
    ghost saw = { λ _ _. Unit {0} };

    ghost napped = { λ _ _. Unit {0} };

    ghost rested = { λ _ _. Unit {0} };

    ghost dozed = { λ _ _ _. Unit {0} };

    ghost shared = { λ _. Unit {0} };

    fn seen(&self) -> u64 {
        self.notifications()
    }

    fn take_nap<R: Wait>(&self, rt: &R, seen: u64) {
        self.nap(rt, seen);
    }

    fn take_rest<R: Wait>(&self, rt: &R, seen: u64) {
        self.rest(rt, seen);
    }

    fn take_doze<R: Wait>(&self, rt: &R, seen: u64, routes: u32) {
        self.doze(rt, seen, routes);
    }

    fn share_work(&self) {
        self.wake_reserve();
    }
}
