//! Evidence that a route has another index than the place that it is in.

ghost use Rattle.std.specs.Prelude.{◌≡◌, ◌≢◌, OnOk, IfErr};
ghost use Rattle.srt_mailbox.specs.Identities.{identity_in};

use crate::seats::{Attachment, Seat};

/// Evidence that a route has another index than that of the place that it is in. Only `check_index` makes any.
#[derive(Drop)]
pub struct Misplaced {
    /// The index of the place.
    pub index: usize,
    // private, so that nothing else makes any
    marker: (),
}

/// Checks that the route of this seat has this index. The error is evidence that it has another one.
pub(crate) fn check_index<X: Attachment + Drop>(
    seat: &Seat<X>,
    index: usize,
) -> Result<(), Misplaced>
    ensures same { OnOk result ((identity_in seat.now.cell).index ≡ index) }
    ensures other { IfErr result (λ m. (m.index ≡ index) × ((identity_in seat.now.cell).index ≢ index)) }
{
    if seat.cell.index() == index {
        Ok(())
    } else {
        Err(Misplaced { index, marker: () })
    }
}
