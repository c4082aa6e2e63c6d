//! A notifier: threads sleep until they are notified.

use std::sync::{Condvar, Wait};
use std::time::Duration;

/// A condition variable that counts its notifications, so that none is missed between a look for work and the sleep.
#[derive(Drop)]
pub struct Notifier {
    condition: Condvar,
}

impl Notifier {
    /// A notifier with no notification yet.
    pub const fn new() -> Notifier {
        Notifier {
            condition: Condvar::new(),
        }
    }

    /// The number of notifications so far. A thread reads it before it looks for work, and hands it to `sleep`. No clause
    /// states what it returns: other threads wrote it.
    pub fn notifications(&self) -> u64 {
        self.condition.notifications()
    }

    /// Sleeps until a notification, for at most `most`. Returns at once if there was one since `notifications` returned
    /// `seen`. No clause states how long it sleeps.
    pub fn sleep<R: Wait>(&self, rt: &R, seen: u64, most: Duration) {
        self.condition.sleep(rt, seen, most);
    }

    /// Wakes one thread that sleeps, if there is one. No clause states whom it wakes.
    pub fn notify_one(&self) {
        self.condition.notify_one();
    }

    /// Wakes all threads that sleep. No clause states whom it wakes.
    pub fn notify_all(&self) {
        self.condition.notify_all();
    }
}
