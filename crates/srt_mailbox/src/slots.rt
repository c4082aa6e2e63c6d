//! Moves a value out of a slot and back. The functions are generic over the value's type, of which they don't know that
//! it may be dropped: so no body of theirs loses a value. What was taken out is a `TakenOut`, which has no `Drop` either.

ghost use Rattle.std.specs.Prelude.{◌≡◌, ◌≢◌, IfSome, IfOk, IfErr};
ghost use Rattle.srt_mailbox.specs.inside.Slots.{word_of};

use counted_slot::{Claim, Counted, FREE, Fits, PRESENT, TAKEN};
use std::snapshot::Snapshot;
use std::sync::Wait;

pub(crate) mod claims;
pub(crate) mod handing;
pub(crate) mod taken_route;

// What a slot is left with, and the word for it.
struct Content<X> {
    value: Option<X>,
    word: u64,
    ghost agrees: { word ≡ word_of value },
}

// Leaves this in the slot, and returns what was there. Nothing states that the word is the one that is written, since
// `Claim::put` has no clause about it.
#[inline(always)]
fn leave<X: Fits>(claim: Claim<'_, Option<X>>, content: Content<X>) -> Option<X>
    requires right { claim.right ≡ 2 }
    requires fits { IfSome content.value (X.fits claim.tag) }
    ensures { IfSome result (X.fits claim.entry.tag) }
{
    let Content { value, word } = content;
    claim.put(value, word)
}

/// Evidence that a value was put back into a slot. It has no bytes, and can't be copied. Only `put_back` makes any.
pub(crate) struct PutBack<X> {
    value: Snapshot<X>,
}

impl<X> Drop for PutBack<X> {
    fn drop(self) {
        let Self { value: _ } = self;
    }
}

/// Evidence that another call had taken out what a slot holds, at some time of a call. It can't be copied. Only `take_out`
/// makes any.
#[derive(Drop)]
pub struct TakenElsewhere {
    // the word that was found
    found: u64,
    // the call was to take the value out for good
    for_good: bool,
    ghost taken: { found ≢ 0 },
}

/// A value that was taken out of a slot. It has no `Drop`, and what is in it is private to this module and those below:
/// `claims.rt` puts it back in the end, `taken_route.rt` settles it, and `handing.rt` gives it to its owner. Only `take_out`
/// makes any.
pub(crate) struct TakenOut<X> {
    value: X,
}

/// Values that their owner takes out of a slot for good, to have them.
pub(crate) trait Handed {}

/// Takes out what a slot holds: for good, or to put it back. The error is evidence that another call has it. One
/// compare-exchange; never waits.
#[inline(always)]
pub(crate) fn take_out<X: Fits>(
    slot: &Counted<Option<X>>,
    for_good: bool,
) -> Result<TakenOut<X>, TakenElsewhere>
    ensures fits { IfOk result (λ out. X.fits slot.now out.value) }
    ensures taken { IfErr result (λ e. e.for_good ≡ for_good) }
{
    let (found, claim) = slot.turn(FREE, TAKEN);
    if found != FREE {
        claim.done();
        return Err(TakenElsewhere { found, for_good });
    }
    let content = Content {
        value: None,
        word: PRESENT,
    };
    match leave(claim, content) {
        Some(value) => Ok(TakenOut { value }),
        None => Err(TakenElsewhere {
            found: PRESENT,
            for_good,
        }),
    }
}

/// Puts a value back into the slot from which it was taken, and frees the slot. While a call has the value, no other call
/// changes the word, so the first try succeeds and finds the slot empty. The proof doesn't know that, hence the loop,
/// which puts a value that was found there in its turn.
#[inline(always)]
pub(crate) fn put_back<X: Fits, R: Wait>(rt: &R, slot: &Counted<Option<X>>, value: X) -> PutBack<X>
    requires { X.fits slot.now value }
    ensures { result.value.value ≡ value }
{
    let back = PutBack {
        value: Snapshot::of(&value),
    };
    let mut left = value;
    for _ in rt.forever() {
        let (found, claim) = slot.turn(PRESENT, TAKEN);
        if found == PRESENT {
            let content = Content {
                value: Some(left),
                word: FREE,
            };
            match leave(claim, content) {
                None => return back,
                Some(other) => left = other,
            }
        } else {
            claim.done();
        }
    }
    unreachable!()
}
