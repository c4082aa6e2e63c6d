//! The receiver of snapshots of a claimed route.

use srt_route::Route;

/// Receives a snapshot of a claimed route. Workers can't serve the route meanwhile.
pub trait Observer {
    ghost use Rattle.std.specs.Prelude.{ℕ};
    ghost use Rattle.srt_route.specs.declared.route.Route.{Route as TheRoute};

    /// What is known of an observer, as it was and as it is, once it was shown this route, once, with this number of waiting
    /// replies. It may be nothing, but only by that one call can code that is generic over observers show it.
    ghost noted: { (old new : Self) → TheRoute → (waiting : ℕ) → Type 0 } = { λ _ _ _ _. Unit {0} };

    /// Inspects a route with this number of waiting replies.
    fn look(&mut self, route: &Route, waiting: usize)
        ensures { noted self.old self.new route.now waiting };
}
