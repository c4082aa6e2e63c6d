//! The sessions of a route at one time.

ghost use Rattle.std.specs.Prelude.{◌≡◌};
ghost use Rattle.srt_log.specs.Snapshots.{view_of, slot_of};

use srt_route::{EndedSession, SessionView};
use srt_types::product_limits::MAX_SESSIONS;

/// The session of a slot.
#[derive(Clone, Copy)]
pub enum SlotSession {
    /// It is open.
    Open(SessionView),
    /// It has ended.
    Ended(EndedSession),
}

impl SlotSession {
    /// Returns its state: at the time of the snapshot, or at its end.
    pub fn view(&self) -> &SessionView
        ensures { result.now ≡ view_of self.now }
    {
        match self {
            SlotSession::Open(view) => view,
            SlotSession::Ended(ended) => &ended.view,
        }
    }
}

/// Returns the session of a slot: the one that is open there, or otherwise the one that ended there last.
pub fn slot_of(current: Option<SessionView>, ended: Option<EndedSession>) -> Option<SlotSession>
    ensures { result ≡ slot_of current ended }
{
    match current {
        Some(view) => Some(SlotSession::Open(view)),
        None => match ended {
            Some(session) => Some(SlotSession::Ended(session)),
            None => None,
        },
    }
}

/// The sessions of a route at one time, and the number of them so far.
#[derive(Clone, Copy)]
pub struct RouteSnapshot {
    /// The time, in microseconds.
    pub moment: u64,
    /// Whether the gateway is about to end. That closes the route.
    pub stops: bool,
    /// In each slot the session that opened there last; `None` if there was none.
    pub slots: [Option<SlotSession>; MAX_SESSIONS],
    /// In each slot the session that ended there last, also if another one is open there now; `None` if none has ended.
    pub ended: [Option<EndedSession>; MAX_SESSIONS],
    /// The sessions that opened so far.
    pub opened: u64,
}
