//! Places for the seats of routes added while threads run. Each is written once, and any thread may read it.

ghost use Rattle.std.specs.Prelude.{◌≡◌, IfOk, IfErr};
ghost use Rattle.srt_mailbox.specs.Places.{lock_in};

use crate::seats::{Attachment, Seat};
use std::sync::{OnceLock, OnceToken};

/// A place for one route, empty until a seat is put there. The seat stays.
#[derive(Drop)]
pub struct Place<X: Attachment + Drop> {
    pub(crate) seat: OnceLock<Seat<X>>,
}

impl<X: Attachment + Drop> Place<X> {
    /// Makes an empty place. Doesn't allocate. No clause states that it is empty, since the library states nothing of the
    /// content of a `OnceLock`.
    pub fn new() -> Place<X> {
        Place {
            seat: OnceLock::new(),
        }
    }

    /// Puts a seat here, visible to all threads, and returns a token as evidence of it. If the place has a seat
    /// already, or gets one concurrently, the error returns the new seat. Never waits.
    pub fn put(&self, seat: Seat<X>) -> Result<OnceToken<'_, Seat<X>>, Seat<X>>
        ensures put { IfOk result (λ token. (token.of ≡ lock_in self.now) × (token.value ≡ seat)) }
        ensures taken { IfErr result (λ back. back ≡ seat) }
    {
        self.seat.try_set(seat)
    }
}

/// Evidence that a place was empty. Only the two functions below make any.
#[derive(Drop)]
pub struct EmptyPlace(());

/// The seat that was put into a place. The error is evidence that none was. No clause states which seat it is: what states
/// that is a token (`token_in`).
pub(crate) fn seat_in<X: Attachment + Drop>(place: &Place<X>) -> Result<&Seat<X>, EmptyPlace> {
    match place.seat.get() {
        Some(seat) => Ok(seat),
        None => Err(EmptyPlace(())),
    }
}

/// A token of the seat that was put into a place. The error is evidence that none was.
pub(crate) fn token_in<X: Attachment + Drop>(
    place: &Place<X>,
) -> Result<OnceToken<'_, Seat<X>>, EmptyPlace>
    ensures { IfOk result (λ token. token.of ≡ lock_in place.now) }
{
    match place.seat.witness() {
        Some(token) => Ok(token),
        None => Err(EmptyPlace(())),
    }
}

fn is_sync<T: Sync>(_it: &T) {}

// Compiles only if threads may share a place.
fn place_is_sync<X: Attachment + Drop + Send + Sync>(place: &Place<X>) {
    is_sync(place);
}
