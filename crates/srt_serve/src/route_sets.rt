//! Sets of routes that threads mark. Each has a type of its own, so that code that marks one in place of another doesn't compile.

ghost use Rattle.std.specs.Prelude.{◌≡◌};

use srt_wakeups::SharedMarks;
use std::marker::PhantomData;

/// Marks of routes. `K` names what they are marks of.
#[derive(Drop)]
pub struct RouteSet<K, S: Drop> {
    marks: S,
    of: PhantomData<K>,
}

impl<K, S: Drop> RouteSet<K, S> {
    /// These marks, as those of `K`.
    pub fn of(marks: S) -> RouteSet<K, S>
        ensures { result.marks ≡ marks }
    {
        RouteSet {
            marks,
            of: PhantomData,
        }
    }
}

impl<K, S: SharedMarks + Drop> SharedMarks for RouteSet<K, S> {
    ghost marked = { λ s route. S.marked s.marks route };

    ghost was_marked = { λ s route. S.was_marked s.marks route };

    ghost was_clear = { λ s route. S.was_clear s.marks route };

    ghost cleared = { λ s route. S.cleared s.marks route };

    fn mark(&self, route: usize) -> bool {
        self.marks.mark(route)
    }

    fn next_marked(&self, route: usize) -> usize {
        self.marks.next_marked(route)
    }

    fn unmark(&self, route: usize) {
        self.marks.unmark(route);
    }
}
