//! What a reader takes of the route in its next place: the poller's ends, or the clock's.
//!
//! These functions are apart from the reader's own fields, and take ends by `hand_over` alone. So ends that were taken are
//! returned: a reader that has moved on can't say that it hasn't.

ghost use Rattle.std.specs.Prelude.{◌≡◌, ◌∷◌, ◌++◌, [], length, IfOk, IfErr};
ghost use Rattle.srt_mailbox.specs.Cells.{CellIdentity};
ghost use Rattle.srt_mailbox.specs.Seats.{IsNewPoller, IsNewClock};

use crate::readers::{NoneSeated, SeatReader};
use crate::seats::{Attachment, ClockHand, PollerEnds};
use crate::slots::handing::hand_over;

impl<X: Attachment + Drop> SeatReader<'_, X> {
    ghost use Rattle.srt_mailbox.specs.Places.{arrived, places_of};
    ghost use Rattle.srt_mailbox.specs.Readers.{IsPast};

    /// Takes the poller's ends of the route in the next place. The error is evidence that none was added there, or that they
    /// were taken. Doesn't allocate and never waits.
    pub fn next_poller(&mut self) -> Result<PollerEnds<X>, NoneSeated>
        ensures some { IfOk result (λ e. (n : CellIdentity) × (arrived self.new ≡ arrived self.old ++ n ∷ []) × (n.index ≡ length (arrived self.old)) ×
            IsNewPoller n e.ingress e.drain × X.belongs n.terms n.index e.companion) }
        ensures none { IfErr result (λ _. self.new ≡ self.old) }
        ensures past { IfErr result (λ none. IsPast (places_of self.old) (length (arrived self.old)) none) }
        ensures places { places_of self.new ≡ places_of self.old }
    {
        let (seat, token) = self.coming()?;
        match hand_over(&seat.poller, self, token) {
            Ok(ends) => Ok(ends),
            Err(taken) => Err(NoneSeated::Taken(taken)),
        }
    }

    /// Takes the clock's end of the route in the next place, likewise.
    pub fn next_clock(&mut self) -> Result<ClockHand, NoneSeated>
        ensures some { IfOk result (λ h. (n : CellIdentity) × (arrived self.new ≡ arrived self.old ++ n ∷ []) × (n.index ≡ length (arrived self.old)) ×
            IsNewClock n h.end) }
        ensures none { IfErr result (λ _. self.new ≡ self.old) }
        ensures past { IfErr result (λ none. IsPast (places_of self.old) (length (arrived self.old)) none) }
        ensures places { places_of self.new ≡ places_of self.old }
    {
        let (seat, token) = self.coming()?;
        match hand_over(&seat.clock, self, token) {
            Ok(hand) => Ok(hand),
            Err(taken) => Err(NoneSeated::Taken(taken)),
        }
    }
}
