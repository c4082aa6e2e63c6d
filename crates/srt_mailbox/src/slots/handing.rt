//! A value that was taken out of a slot for good, and is given to the owner of a reader, which moves on with it.
//!
//! The function is generic over the value's type, of which it doesn't know that it may be dropped: what was taken out is
//! returned, and the reader has moved on.

ghost use Rattle.std.specs.Prelude.{◌≡◌, ◌∷◌, ◌++◌, [], IfOk, OnOk, OnErr};
ghost use Rattle.srt_mailbox.specs.Places.{places_of, is_next};

use crate::readers::SeatReader;
use crate::seats::{Attachment, Seat};
use crate::slots::{Handed, TakenElsewhere, TakenOut, take_out};
use counted_slot::{Counted, Fits};
use std::sync::OnceToken;

/// Takes out what a slot holds, for the reader's owner to have, and moves the reader on past the next place, which has the
/// seat of this token. The error is evidence that another call has it; the reader stays then.
#[inline(always)]
pub(crate) fn hand_over<'a, V: Fits + Handed, X: Attachment + Drop>(
    slot: &Counted<Option<V>>,
    reader: &mut SeatReader<'a, X>,
    token: OnceToken<'a, Seat<X>>,
) -> Result<V, TakenElsewhere>
    requires { is_next reader.old token.of }
    ensures fits { IfOk result (V.fits slot.now) }
    ensures passed { OnOk result (reader.new.tokens.items ≡ reader.old.tokens.items ++ token.entry ∷ []) }
    ensures stays { OnErr result (reader.new ≡ reader.old) }
    ensures places { places_of reader.new ≡ places_of reader.old }
{
    match take_out(slot, true) {
        Ok(TakenOut { value }) => {
            reader.pass(token);
            Ok(value)
        }
        Err(elsewhere) => Err(elsewhere),
    }
}

/// For tests: as `hand_over`, of a seat that no reader has reached.
#[cfg(test)]
pub(crate) fn take_over<V: Fits + Handed>(slot: &Counted<Option<V>>) -> Result<V, TakenElsewhere>
    ensures { IfOk result (V.fits slot.now) }
{
    match take_out(slot, true) {
        Ok(TakenOut { value }) => Ok(value),
        Err(taken) => Err(taken),
    }
}
