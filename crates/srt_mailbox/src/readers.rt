//! Readers of the places of routes, in order. Each owner of ends has one: the poller, and the clock's thread.

ghost use Rattle.std.specs.Prelude.{◌≡◌, ◌≤◌, ◌<◌, ℕ, List, [], ◌∷◌, ◌++◌, length, map, take, get_or, slice_get, Some};
ghost use Rattle.std.specs.Prelude.{IfOk, IfErr, vec_len, vec_capacity};
ghost use Rattle.srt_mailbox.specs.Identities.{identity_in};

use crate::added_seats::{EmptyPlace, Place, token_in};
use crate::misplaced::{Misplaced, check_index};
use crate::seats::{Attachment, Seat};
use crate::slots::TakenElsewhere;
use std::alloc::{AllocError, Global};
use std::sync::OnceToken;

/// Evidence that a reader found no further route, or no ends of it.
#[derive(Drop)]
pub enum NoneSeated {
    /// It has reached the routes of all its places.
    Past,
    /// The next place is empty.
    Empty(EmptyPlace),
    /// The route in the next place has another index.
    Misplaced(Misplaced),
    /// Another call has taken the ends.
    Taken(TakenElsewhere),
}

/// One owner's reader of places. It reaches the routes one after the other.
#[derive(Drop)]
pub struct SeatReader<'a, X: Attachment + Drop> {
    places: &'a [Place<X>],
    // for each place that was read, evidence of its seat; no bytes
    tokens: Vec<OnceToken<'a, Seat<X>>>,
    ghost shown: { map (λ t. t.of) tokens.items ≡ take (length tokens.items) (map (λ p. p.seat.id) places.now) },
    ghost room: { length places.now ≤ vec_capacity tokens },
}

// Returns the element at this index. Where an element's size depends on a type parameter, the offset's bound is proved
// here once, over no other type.
#[inline(always)]
fn item_at<T>(items: &[T], index: usize) -> &T
    requires { index < length items.now }
    ensures { result.now ≡ get_or items.now index result.now }
{
    &items[index]
}

impl<'a, X: Attachment + Drop> SeatReader<'a, X> {
    ghost use Rattle.srt_mailbox.specs.Places.{arrived, places_of, locks_of, is_next};
    ghost use Rattle.srt_mailbox.specs.Readers.{IsPast};

    /// Allocates a reader of these places that has reached none of them. The only call that allocates; the error is a
    /// failed allocation.
    pub fn new(alloc: Global, places: &'a [Place<X>]) -> Result<SeatReader<'a, X>, AllocError>
        ensures { IfOk result (λ r. (arrived r ≡ []) × (places_of r ≡ places.now)) }
    {
        Ok(SeatReader {
            places,
            tokens: Vec::with_capacity(alloc, places.len())?,
        })
    }

    /// Returns the seat in the next place. The error is evidence that there is no further place, that the place is empty, or
    /// that the route there has another index.
    pub(crate) fn coming(&self) -> Result<(&'a Seat<X>, OnceToken<'a, Seat<X>>), NoneSeated>
        ensures value { IfOk result (λ r. r.0.now ≡ r.1.value) }
        ensures next { IfOk result (λ r. is_next self.now r.1.of) }
        ensures index { IfOk result (λ r. (identity_in r.0.now.cell).index ≡ length self.now.tokens.items) }
        ensures past { IfErr result (λ none. IsPast (places_of self.now) (length self.now.tokens.items) none) }
    {
        let at = self.tokens.len();
        let Some(place) = self.places.get(at) else {
            return Err(NoneSeated::Past);
        };
        let token = match token_in(place) {
            Ok(token) => token,
            Err(empty) => return Err(NoneSeated::Empty(empty)),
        };
        let seat = place.seat.value(&token);
        match check_index(seat, at) {
            Ok(()) => {}
            Err(misplaced) => return Err(NoneSeated::Misplaced(misplaced)),
        }
        Ok((seat, token))
    }

    /// Moves on past the next place, which has this seat.
    pub(crate) fn pass(&mut self, token: OnceToken<'a, Seat<X>>)
        requires { is_next self.old token.of }
        ensures tokens { self.new.tokens.items ≡ self.old.tokens.items ++ token.entry ∷ [] }
        ensures places { places_of self.new ≡ places_of self.old }
    {
        let Ok(()) = self.tokens.push(token) else {
            unreachable!()
        };
    }

    /// Returns the number of routes that the reader has reached.
    pub fn routes(&self) -> usize
        ensures { result ≡ length (arrived self.now) }
    {
        self.tokens.len()
    }

    /// Returns the seat of a route that the reader has reached.
    pub fn seat(&self, index: usize) -> &'a Seat<X>
        requires { index < length (arrived self.now) }
        ensures { slice_get (arrived self.now) index ≡ Some (identity_in result.now.cell) }
    {
        item_at(self.places, index).seat.value(&self.tokens[index])
    }

    /// States that two readers of the same places, which have both passed this index, reached the same route there.
    /// Does nothing.
    pub fn agree(&self, other: &SeatReader<'a, X>, index: usize)
        requires places { locks_of self.now ≡ locks_of other.now }
        requires here { index < length (arrived self.now) }
        requires there { index < length (arrived other.now) }
        ensures { slice_get (arrived self.now) index ≡ slice_get (arrived other.now) index }
    {
        self.tokens[index].agrees(&other.tokens[index]);
    }

    /// States that the route that the reader reached at this index is that of the seat which `Place::put` put there,
    /// according to its token. Does nothing.
    pub fn reached(&self, index: usize, put: &OnceToken<'a, Seat<X>>)
        requires here { index < length (arrived self.now) }
        requires place { slice_get (locks_of self.now) index ≡ Some put.now.of }
        ensures { slice_get (arrived self.now) index ≡ Some (identity_in put.now.value.cell) }
    {
        self.tokens[index].agrees(put);
    }
}
