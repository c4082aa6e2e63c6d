//! Changes of a run's routes.

use srt_types::Entry;

/// Routes to close and to open in a run.
#[derive(Drop)]
pub struct RouteChanges {
    /// The indexes of the routes that close. An index that no route has yet, or that was closed before, is ignored.
    pub closes: Vec<usize>,
    /// The entries of the routes that open. They get the next indexes, in this order.
    pub opens: Vec<Entry>,
}

/// Why a change was rejected. None of it was made.
#[derive(Clone, Copy, Debug, PartialEq, Eq)]
pub enum ChangeFault {
    /// Out of memory for the entry at this index of `opens`, or that entry is out of its limits.
    OutOfMemory(usize),
    /// `opens` has more entries than indexes are left: this many are.
    NoIndexLeft(usize),
}

/// Opens and closes the routes of a run.
pub trait ChangeRoutes {
    ghost use Rattle.std.specs.Prelude.{◌≡◌, List, Option, None, map};
    ghost use Rattle.srt_types.specs.Terms.{terms_of};
    ghost use Rattle.srt_supervision.specs.Answers.{Answer, AreClosings, AreOpenings};
    ghost use Rattle.srt_supervision.specs.Changes.{AskedChange, asked_change, with_asked};

    /// What has to be known of what a change requests. It may be nothing.
    ghost requires_of: { Answer → Type 0 };

    /// All changes that were requested, the oldest first, or `None` for a run that doesn't record them.
    ghost asked: { Self → Option (List AskedChange) } = { λ _. None };

    /// Makes a change, all of it or nothing. Returns the index of the first route that opens; if none opens, the index
    /// that the next one will get.
    fn change(&mut self, changes: RouteChanges) -> Result<usize, ChangeFault>
        requires closings { AreClosings Self.requires_of changes.closes.items }
        requires openings { AreOpenings Self.requires_of (map terms_of changes.opens.items) }
        ensures asked { asked self.new ≡ with_asked (asked self.old) (asked_change changes result) };
}
