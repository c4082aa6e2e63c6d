//! The state of a route, as the page shows it.

ghost use Rattle.std.specs.Prelude.{◌≡◌};
ghost use Rattle.srt_status.specs.Labels.{with_end};

use crate::expectation::Expectation;
use crate::gateway::RefusalCounts;
use crate::history::RouteHistory;
use srt_route::{EndCause, SessionView, Totals};
use srt_types::Mode;
use srt_types::product_limits::MAX_SESSIONS;

/// The conclusions that a route refused with 1003, by reason.
#[derive(Clone, Copy, Default)]
pub struct LimitCounts {
    /// No slot was free.
    pub sessions: u64,
    /// It requested a subscriber's session, and the free slots are reserved for publishers.
    pub reserved: u64,
    /// Its address has as many open sessions as `sessions_per_address` allows.
    pub sessions_per_address: u64,
}

/// The ended sessions of a route, by the reason of their end.
#[derive(Clone, Copy, Default, PartialEq, Eq)]
pub struct EndCounts {
    /// Their peer sent a SHUTDOWN.
    pub shutdown: u64,
    /// Their peer sent a SHUTDOWN, and what was left then couldn't be delivered in time.
    pub drained_too_long: u64,
    /// Nothing arrived from their peer for five seconds.
    pub silence: u64,
    /// Their window moved past packets that were neither received nor given up.
    pub window_lost: u64,
    /// The stream has ended, and all of it was delivered.
    pub stream_end: u64,
    /// Their route was closed.
    pub route_closed: u64,
    /// The reason isn't known.
    pub unknown: u64,
}

impl EndCounts {
    /// Counts the end of a session, by its reason if that is known. A count stops at 2^64 - 1.
    pub fn count(&mut self, cause: Option<EndCause>)
        ensures { self.new ≡ with_end self.old cause }
    {
        let Some(cause) = cause else {
            self.unknown = self.unknown.saturating_add(1);
            return;
        };
        match cause {
            EndCause::Shutdown | EndCause::Drained => {
                self.shutdown = self.shutdown.saturating_add(1);
            }
            EndCause::DrainedTooLong => {
                self.drained_too_long = self.drained_too_long.saturating_add(1);
            }
            EndCause::Silence => self.silence = self.silence.saturating_add(1),
            EndCause::WindowLost => self.window_lost = self.window_lost.saturating_add(1),
            EndCause::FileEnded => self.stream_end = self.stream_end.saturating_add(1),
            EndCause::Closed => self.route_closed = self.route_closed.saturating_add(1),
        }
    }
}

/// A route at one time.
#[derive(Drop)]
pub struct RouteStatus {
    /// Its name, as Stream IDs request it.
    pub name: String,
    /// How it delivers payloads.
    pub mode: Mode,
    /// The greatest number of open sessions.
    pub sessions_allowed: u32,
    /// The session of each slot; None where no session is open.
    pub sessions: [Option<SessionView>; MAX_SESSIONS],
    /// The counts of all its sessions since the start, ended and open.
    pub totals: Totals,
    /// The sessions that were opened since the start.
    pub opened: u64,
    /// The conclusions that it refused.
    pub refused: RefusalCounts,
    /// The conclusions that it refused with 1003; None if that isn't known.
    pub limits: Option<LimitCounts>,
    /// How often a standby publisher became the active one; None if it isn't known.
    pub take_overs: Option<u64>,
    /// The sessions that ended since the start; None if that isn't known.
    pub ends: Option<EndCounts>,
    /// The expectation that it is on air; None if that isn't expected of it.
    pub expectation: Option<Expectation>,
    /// Its last hour.
    pub history: RouteHistory,
}
