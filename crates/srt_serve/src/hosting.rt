//! Puts the routes of a change into their places.

ghost use Rattle.std.specs.Prelude.{◌≡◌, ◌⊎◌, ◌≤◌, ◌+◌, ◌-◌, Some, length, slice_get};
ghost use Rattle.srt_serve.specs.inside.Changing.{IsHostedAt};
ghost use Rattle.srt_serve.specs.inside.UpTo.{UpTo};

use crate::answers::Beginning;
use crate::arrivals::NameAttachment;
use crate::evidence::RouteHost;
use crate::watching::Changer;
use srt_mailbox::Seat;
use srt_supervision::Answers;

/// Evidence that the routes of a change were put into their places. Only then the polling thread is told of the change, so
/// that it finds all of it.
#[derive(Drop)]
pub struct SeatsHosted {
    /// The number of places that were taken before.
    pub first: usize,
    hosted: (),
}

// Puts a route into the place with this index.
fn host_at<C: RouteHost>(places: &[C], index: usize, seat: C::Seat)
    ensures { (place : C) → slice_get places.now index ≡ Some place → C.has_route place ⊎ C.hosts place seat }
{
    let Some(place) = places.get(index) else {
        return;
    };
    let _ = place.host(seat);
}

impl<A: Answers + Beginning, C: RouteHost<Seat = Seat<NameAttachment<A>>>, N> Changer<'_, C, N, A> {
    /// Puts the routes of a change into their places, which are taken then.
    pub fn host_all(&mut self, seats: Vec<Seat<NameAttachment<A>>>) -> SeatsHosted
        requires { length seats.items ≤ length self.old.places.now - self.old.routes }
        ensures first { result.first ≡ self.old.routes }
        ensures routes { self.new.routes ≡ self.old.routes + length seats.items }
        ensures hosted { UpTo (IsHostedAt C.hosts C.has_route self.old.places.now self.old.routes seats.items) (length seats.items) }
        ensures others { (self.new.places ≡ self.old.places) × (self.new.notices ≡ self.old.notices) }
    {
        let first = self.routes;
        let count = seats.len();
        let mut seats = seats.into_iter();
        for offset in 0..count {
            let Some(seat) = seats.next() else {
                unreachable!();
            };
            host_at(self.places, self.routes + offset, seat);
        }
        self.routes = self.routes.wrapping_add(count);
        SeatsHosted { first, hosted: () }
    }
}
