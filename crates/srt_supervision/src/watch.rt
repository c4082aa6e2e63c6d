//! The watcher of a run.

use crate::changes::ChangeRoutes;
use crate::order::Order;
use crate::refusal::Refusal;
use crate::report::Report;
use srt_route::Route;

/// The state of a run, as its watcher gets it.
#[derive(Clone, Copy, Debug, PartialEq, Eq)]
pub struct RunStatus {
    /// Twice in a row no route had an open session, a waiting reply, or a hint of one in its outbox. Checked only while
    /// the poller's order is to close all or to end, and false before.
    pub is_quiet: bool,
    /// The number of socket faults so far: of waits, reads and sends that failed.
    pub faults: u64,
    /// The number of refusals so far that weren't passed to `refused`, since too many waited. They are counted together:
    /// no count is kept for each code.
    pub missed: u64,
    /// The poller's counters at the beginning of a round, as it reported them last; all 0 before its first report. A
    /// reply that is kept counts neither as sent nor as lost.
    pub counts: Report,
    /// How often the poller has reported its counters. A report is requested before each rest, unless an earlier request
    /// is still open, and the poller answers at the beginning of its next round. So if this number stays the same over
    /// several rests, no round began in them; a round takes some 10 milliseconds if nothing arrives.
    pub reports: u64,
}

/// What is known of each answer of a watcher. A run closes all, ends early, and opens and closes routes only by answers of
/// which this is known (`srt_serve::run_until`).
pub trait Answers {
    ghost use Rattle.srt_supervision.specs.Answers.{Answer};

    /// What is known once this answer was given. It may be nothing.
    ghost answered: { Answer → Type 0 };
}

/// The watcher of a run, in a thread of its own.
pub trait Watch: Answers {
    ghost use Rattle.std.specs.Prelude.{◌≡◌, ℕ, Bool, List, Option, None};
    ghost use Rattle.srt_route.specs.declared.route.Route.{Route as TheRoute};
    ghost use Rattle.srt_supervision.specs.Answers.{Answer, IsOrdered};
    ghost use Rattle.srt_supervision.specs.Refusals.{with_told};
    ghost use Rattle.srt_supervision.specs.declared.order.Order.{Order as TheOrder};
    ghost use Rattle.srt_supervision.specs.declared.refusal.Refusal.{Refusal as TheRefusal};
    ghost use Rattle.srt_supervision.specs.declared.watch.RunStatus.{RunStatus as TheStatus};

    /// What is known once it was given this status and returned this order. This and the next four may be nothing, but only
    /// by the call can a run show them.
    ghost rested: { TheStatus → TheOrder → Type 0 } = { λ _ _. Unit {0} };

    /// What is known once it answered whether it wants the routes.
    ghost wanted: { Bool → Type 0 } = { λ _. Unit {0} };

    /// What is known once a route with this index was shown.
    ghost shown: { (index : ℕ) → TheRoute → Type 0 } = { λ _ _. Unit {0} };

    /// What is known once a refusal was reported.
    ghost told: { TheRefusal → Type 0 } = { λ _. Unit {0} };

    /// What is known once it was let change the routes.
    ghost changed: { Type 0 } = { Unit {0} };

    /// The refusals that were reported to it, the oldest first, or `None` for a watcher that doesn't record them.
    ghost refusals: { Self → Option (List TheRefusal) } = { λ _. None };

    /// Rests for some milliseconds, and returns the order that the poller has from then on. `End` is final: whatever a
    /// later call returns, the run ends. A run doesn't end before this call returns.
    fn next(&mut self, status: RunStatus) -> Order
        ensures answered { IsOrdered Self.answered result }
        ensures rested { Self.rested status result }
        ensures refusals { refusals self.new ≡ refusals self.old };

    /// Whether the routes are to be shown now. Called after each rest.
    fn wants_routes(&mut self) -> bool
        ensures wanted { Self.wanted result }
        ensures refusals { refusals self.new ≡ refusals self.old };

    /// Shows a route, at most once after each `wants_routes`. Workers can't serve it meanwhile. A route that another
    /// thread is serving is left out; after the run each route is shown once more.
    fn show_route(&mut self, index: usize, route: &Route)
        ensures shown { Self.shown index route.now }
        ensures refusals { refusals self.new ≡ refusals self.old };

    /// Reports a conclusion that was refused.
    fn refused(&mut self, refusal: &Refusal)
        ensures told { Self.told refusal.now }
        ensures refusals { refusals self.new ≡ with_told (refusals self.old) refusal.now };

    /// Lets the watcher open and close routes. Called after each rest, but not once the poller's order is to close all or
    /// to end.
    fn change_routes<C: ChangeRoutes>(&mut self, run: &mut C)
        requires { (a : Answer) → Self.answered a → C.requires_of a }
        ensures changed { Self.changed }
        ensures refusals { refusals self.new ≡ refusals self.old };
}

/// A watcher that changes nothing and observes nothing, for runs that aren't watched.
#[derive(Drop)]
pub struct NoWatcher;

impl Answers for NoWatcher {
    ghost answered = { λ a. ⊥ };
}

impl Watch for NoWatcher {
    fn next(&mut self, _status: RunStatus) -> Order {
        Order::GoOn
    }

    fn wants_routes(&mut self) -> bool {
        false
    }

    fn show_route(&mut self, _index: usize, _route: &Route) {}

    fn refused(&mut self, _refusal: &Refusal) {}

    fn change_routes<C: ChangeRoutes>(&mut self, _run: &mut C) {}
}
