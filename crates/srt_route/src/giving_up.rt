//! Before step 2 of an event: a subscriber's session is given up if it doesn't confirm its next key within five seconds (our
//! choice). It then ends with the idle ones (`silence.rt`).

ghost use Rattle.std.specs.Prelude.{◌≡◌, length};
ghost use Rattle.srt_route.specs.RouteKeys.{own_keys};
ghost use Rattle.srt_route.specs.SlotKeys.{place_keys_of};
ghost use Rattle.srt_route.specs.Tables.{seat_given_up};
ghost use Rattle.srt_route.specs.inside.GivingUp.{GivesUp, GivesUpEncrypted};

use crate::route_keys::RouteKeys;
use crate::seat::Seat;
use crate::slot_keys::KeyPlace;
use crate::subscriber_transmit::are_encrypted;
use crate::table::Table;

/// Gives up the session in a seat, whose slot has these keys, if it didn't confirm the next one in time.
fn give_up_seat(seat: &mut Seat, place: &KeyPlace, clock: u64)
    ensures { seat.new ≡ seat_given_up (own_keys (place_keys_of place.now)) clock seat.old }
{
    if let Some(session) = &mut seat.session {
        let late = place.is_unconfirmed(clock.saturating_sub(session.opened));
        session.part = session.part.given_up_if(late);
    }
}

/// Gives up the sessions of a route whose subscribers' sessions are encrypted. Linear in the slots, at most 17.
fn give_up_each(table: &mut Table, keys: &RouteKeys, clock: u64)
    requires { length keys.now.slots.items ≡ length table.old.seats.items }
    ensures { GivesUpEncrypted clock keys.now table.old table.new }
{
    for at in 0..table.seats.len() {
        give_up_seat(&mut table.seats[at], &keys.slots[at], clock);
    }
}

/// Gives up the subscribers' sessions whose next key was announced five seconds before this clock and isn't confirmed. Does
/// nothing on a route whose subscribers' sessions aren't encrypted.
pub fn give_up(table: &mut Table, keys: &RouteKeys, clock: u64)
    ensures { GivesUp clock keys.now table.old table.new }
{
    if !are_encrypted(keys, table.seats.len()) {
        return;
    }
    give_up_each(table, keys, clock);
}
