//! The limits of a route's numbers, which are our choice.

ghost use Rattle.std.specs.Prelude.{◌≡◌};
ghost use Rattle.srt_types.specs.Terms.{terms_of};
ghost use Rattle.srt_types.specs.Entries.{is_between, is_between_if, are_rules, draft_rules, in_limits};

use crate::product_limits::{
    MAX_LATENCY_MS, MAX_QUEUE, MAX_RESEND_PERCENT, MAX_RESERVED, MAX_SESSIONS, MAX_TAKEOVER_MS,
    MIN_LATENCY_MS, MIN_QUEUE, MIN_RESEND_PERCENT, MIN_TAKEOVER_MS,
};
use crate::protocol_limits::{MAX_WINDOW, MIN_WINDOW};
use crate::shared::{Callers, Entry, Rules};

/// Whether `low <= n <= high`.
pub fn is_between(low: usize, high: usize, n: usize) -> bool
    ensures { result ≡ is_between low high n }
{
    low <= n && n <= high
}

fn is_between_if(low: usize, high: usize, n: Option<u32>) -> bool
    ensures { result ≡ is_between_if low high n }
{
    match n {
        Some(n) => is_between(low, high, n as usize),
        None => true,
    }
}

impl Rules {
    /// The rules of a route that follows the draft alone.
    pub const DRAFT: Rules = Rules {
        callers: Callers::Draft,
        reserved: 0,
        sessions_per_address: None,
        takeover_ms: None,
        resend_percent: None,
    };

    /// Whether each number is within its limits, for a route with this maximum number of sessions.
    fn are_in_limits(&self, sessions: u32) -> bool
        ensures { result ≡ are_rules sessions self.now }
    {
        self.reserved as usize <= MAX_RESERVED
            && self.reserved < sessions
            && is_between_if(1, MAX_SESSIONS, self.sessions_per_address)
            && is_between_if(MIN_TAKEOVER_MS, MAX_TAKEOVER_MS, self.takeover_ms)
            && is_between_if(MIN_RESEND_PERCENT, MAX_RESEND_PERCENT, self.resend_percent)
    }
}

impl Entry {
    /// Whether each number is within its limits, which are listed at the fields of [`Entry`] and [`Rules`]. The name
    /// isn't checked.
    pub fn in_limits(&self) -> bool
        ensures { result ≡ in_limits (terms_of self.now) }
    {
        is_between(MIN_LATENCY_MS, MAX_LATENCY_MS, self.latency_ms as usize)
            && is_between(MIN_WINDOW, MAX_WINDOW, self.buffer as usize)
            && is_between(1, MAX_SESSIONS, self.sessions as usize)
            && is_between(MIN_QUEUE, MAX_QUEUE, self.inbox as usize)
            && is_between(MIN_QUEUE, MAX_QUEUE, self.outbox as usize)
            && self.rules.are_in_limits(self.sessions)
    }
}
