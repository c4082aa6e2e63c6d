//! The marks of a run's routes, as the polling thread and the workers use them. What marks are that other threads set and
//! clear at any time no clause can state. So code that serves routes is generic over `RouteMarks`: what is known once a call
//! has returned it can show only by the call.

use crate::wakeups::Wakeups;

/// The marks of a run's routes: which may have work for a worker, which the poller offered something to, and which outboxes
/// may have a reply.
pub trait RouteMarks {
    ghost use Rattle.std.specs.Prelude.{◌≡◌, ◌<◌, ◌≤◌, ℕ, true, false};

    /// What is known of a route that a worker passed: its inbox wasn't marked as ready, another worker serves it, or this
    /// one served it and left it.
    ghost passed: { Self → (route : ℕ) → Type 0 };

    /// What is known of a route that the polling thread passed: it had no mark that something was offered to it, or the
    /// polling thread served it and left it.
    ghost attended: { Self → (route : ℕ) → Type 0 };

    /// What is known once this was the number of routes that something was offered to.
    ghost counted: { Self → (routes : ℕ) → Type 0 };

    /// What is known once all routes that something was offered to were left to the workers.
    ghost handed: { Self → Type 0 };

    /// What is known once the workers were notified of a read of this many datagrams.
    ghost notified: { Self → (datagrams : ℕ) → Type 0 };

    /// What is known of a route once it was marked that something was offered to it.
    ghost offered: { Self → (route : ℕ) → Type 0 };

    /// What is known of a route once its outbox was marked as ready.
    ghost replied: { Self → (route : ℕ) → Type 0 };

    /// What is known of a route whose outbox wasn't marked as ready.
    ghost rests: { Self → (route : ℕ) → Type 0 };

    /// What is known of a route once its mark was cleared that something was offered to it.
    ghost taken_up: { Self → (route : ℕ) → Type 0 };

    /// What is known of a route once its inbox was marked as ready, since there is more to do.
    ghost left: { Self → (route : ℕ) → Type 0 };

    /// What is known once a worker that rests was woken, if there was one.
    ghost woken: { Self → Type 0 };

    /// As `Wakeups::next_inbox_ready`.
    fn next_ready(&self, route: usize) -> usize
        ensures { (r : ℕ) → route ≤ r → r < result → passed self.now r };

    /// As `Wakeups::enter`.
    fn begin(&self, route: usize) -> bool
        ensures { result ≡ false → passed self.now route };

    /// As `Wakeups::leave`.
    fn end(&self, route: usize, is_left: bool)
        ensures passed { passed self.now route }
        ensures left { is_left ≡ true → left self.now route };

    /// As `Wakeups::set_outbox_ready`.
    fn mark_outbox(&self, route: usize)
        ensures { replied self.now route };

    /// As `Wakeups::take_outbox_ready`.
    fn take_outbox(&self, route: usize) -> bool
        ensures { result ≡ false → rests self.now route };

    /// As `Wakeups::next_outbox_ready`.
    fn next_outbox(&self, route: usize) -> usize
        ensures { (r : ℕ) → route ≤ r → r < result → rests self.now r };

    /// As `Wakeups::set_polled`.
    fn mark_offered(&self, route: usize)
        ensures { offered self.now route };

    /// As `Wakeups::next_polled`.
    fn next_offered(&self, route: usize) -> usize
        ensures { (r : ℕ) → route ≤ r → r < result → attended self.now r };

    /// As `Wakeups::clear_polled`.
    fn clear_offered(&self, route: usize)
        ensures { taken_up self.now route };

    /// Leaves a route whose mark was cleared. If `is_left`, there is more to do: its inbox is marked as ready.
    fn end_offered(&self, route: usize, is_left: bool)
        ensures attended { attended self.now route }
        ensures left { is_left ≡ true → left self.now route };

    /// As `Wakeups::count_polled`.
    fn count_offered(&self) -> u64
        ensures { counted self.now result };

    /// As `Wakeups::hand_over`.
    fn hand_over_offered(&self) -> u64
        ensures { handed self.now };

    /// As `Wakeups::read_ended`.
    fn notify_of_read(&self, datagrams: u32, begun: u64)
        ensures { notified self.now datagrams };

    /// As `Wakeups::wake_resting`.
    fn wake_one(&self)
        ensures { woken self.now };
}

impl RouteMarks for Wakeups {
    ghost passed = { λ _ _. Unit {0} };

    ghost attended = { λ _ _. Unit {0} };

    ghost counted = { λ _ _. Unit {0} };

    ghost handed = { λ _. Unit {0} };

    ghost notified = { λ _ _. Unit {0} };

    ghost offered = { λ _ _. Unit {0} };

    ghost replied = { λ _ _. Unit {0} };

    ghost rests = { λ _ _. Unit {0} };

    ghost taken_up = { λ _ _. Unit {0} };

    ghost left = { λ _ _. Unit {0} };

    ghost woken = { λ _. Unit {0} };

    fn next_ready(&self, route: usize) -> usize {
        self.next_inbox_ready(route)
    }

    fn begin(&self, route: usize) -> bool {
        self.enter(route)
    }

    fn end(&self, route: usize, is_left: bool) {
        self.leave(route, is_left);
    }

    fn mark_outbox(&self, route: usize) {
        self.set_outbox_ready(route);
    }

    fn take_outbox(&self, route: usize) -> bool {
        self.take_outbox_ready(route)
    }

    fn next_outbox(&self, route: usize) -> usize {
        self.next_outbox_ready(route)
    }

    fn mark_offered(&self, route: usize) {
        self.set_polled(route);
    }

    fn next_offered(&self, route: usize) -> usize {
        self.next_polled(route)
    }

    fn clear_offered(&self, route: usize) {
        self.clear_polled(route);
    }

    fn end_offered(&self, route: usize, is_left: bool) {
        if is_left {
            self.set_inbox_ready(route);
        }
    }

    fn count_offered(&self) -> u64 {
        self.count_polled()
    }

    fn hand_over_offered(&self) -> u64 {
        self.hand_over()
    }

    fn notify_of_read(&self, datagrams: u32, begun: u64) {
        self.read_ended(datagrams, begun);
    }

    fn wake_one(&self) {
        self.wake_resting();
    }
}
