//! Routes that are added and removed while a poller runs: what it polls before each round.

ghost use Rattle.std.specs.Prelude.{◌≡◌};

use crate::ends::Ends;
use srt_lobby::NewName;

/// A route that is added while a poller runs: its name, which is hidden until the poller makes it visible, and the
/// poller's ends of its queues.
#[derive(Drop)]
pub struct AddedRoute {
    /// Its name, with the clients that it admits.
    pub name: NewName,
    /// The ends of its queues.
    pub ends: Ends,
}

/// Passes a poller the routes that are added, and those that are to close. Calls come from the poller's thread.
pub trait Openings {
    ghost use Rattle.std.specs.Prelude.{◌≡◌, ◌<◌, ℕ, Bool, false, Option, None, List, [], ◌∷◌, map, IfSome, IfNone};
    ghost use Rattle.srt_poller.specs.Devices.{joined};
    ghost use Rattle.srt_poller.specs.Openings.{ReportedRoute, reported_route, additions, closings};

    /// All routes that it returned, the oldest first, or `None` for openings that don't record them.
    ghost added: { Self → Option (List ReportedRoute) };

    /// The indexes of all routes that it requested to close, the oldest first, or `None` for openings that don't record
    /// them.
    ghost requested: { Self → Option (List ℕ) };

    /// All answers of `has_changes`, the oldest first, or `None` for openings that don't record them.
    ghost answers: { Self → Option (List Bool) } = { λ _. None };

    /// What is known of openings that have just answered that there are no changes. By default nothing.
    ghost unchanged: { Self → Type 0 } = { λ _. Unit {0} };

    /// What is known of openings that have returned no added route when they were asked for the next one. By default nothing.
    ghost no_more: { Self → Type 0 } = { λ _. Unit {0} };

    /// The same, when they were asked for the next one that is to close, of this many routes.
    ghost none_to_close: { Self → (routes : ℕ) → Type 0 } = { λ _ _. Unit {0} };

    /// Whether there may be a route that is added or is to close. Polled before each round, so it should cost no more than
    /// a load or two. If it is wrong, changes are made in a later round.
    fn has_changes(&mut self) -> bool
        ensures answered { answers self.new ≡ joined (answers self.old) (result ∷ []) }
        ensures added { added self.new ≡ added self.old }
        ensures requested { requested self.new ≡ requested self.old }
        ensures unchanged { result ≡ false → unchanged self.new };

    /// Returns the next route that is added, if there is one. It has the next index.
    fn next(&mut self) -> Option<AddedRoute>
        ensures added { added self.new ≡ joined (added self.old) (map reported_route (additions result)) }
        ensures requested { requested self.new ≡ requested self.old }
        ensures answered { answers self.new ≡ answers self.old }
        ensures all { IfNone result (no_more self.new) };

    /// Returns the index of the next route that is to close, if there is one. There are this many routes, the added ones
    /// among them; an index beyond them isn't returned.
    fn next_close(&mut self, routes: usize) -> Option<usize>
        ensures known { IfSome result (λ r. r < routes) }
        ensures added { added self.new ≡ added self.old }
        ensures requested { requested self.new ≡ joined (requested self.old) (closings result) }
        ensures answered { answers self.new ≡ answers self.old }
        ensures no_more { no_more self.old → no_more self.new }
        ensures all { IfNone result (none_to_close self.new routes) };
}
