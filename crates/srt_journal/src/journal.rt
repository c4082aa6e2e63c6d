//! A journal of calls.

ghost use Rattle.std.specs.Prelude.{◌≡◌, List, [], ◌∷◌};
ghost use Rattle.std.specs.Borrow.{ftrue};
ghost use Rattle.srt_journal.specs.Notes.{Note};

use std::marker::{Model, PhantomData};

/// The calls so far, the newest first. It has no bytes, and its methods do nothing at run time.
#[derive(Drop)]
pub struct Journal {
    marker: PhantomData<u8>,
    pub ghost notes: { List Note },
}

impl Model for Journal {
    ghost also_owns = { λ _. ftrue };
}

// It owns nothing.
unsafe impl Send for Journal {}

impl Journal {
    /// No calls.
    pub fn new() -> Journal
        ensures { result.notes ≡ [] }
    {
        Journal {
            marker: PhantomData,
        }
    }

    /// Adds a call: numbers that say which one it is and what it answered, the bytes of a path or an address, and further
    /// bytes.
    pub fn note(&mut self, _numbers: &[u64], _place: &[u8], _bytes: &[u8])
        ensures { self.new.notes ≡ (_numbers.now, _place.now, _bytes.now) ∷ self.old.notes }
    {}
}
