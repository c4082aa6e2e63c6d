//! Step 6 of an event: each subscriber's packets, in ascending order of slots, or the SHUTDOWN that ends a session at the end
//! of a file. Of a subscriber's session with keys each payload is sent under one of them (`encrypted_transmit.rt`).

ghost use Rattle.std.specs.Prelude.{◌≡◌, ◌<◌, ◌^◌, [], Some, true, false, length};
ghost use Rattle.srt_types.specs.Terms.{Terms};
ghost use Rattle.srt_types.specs.declared.shared.Role.TheVariants.{Request};
ghost use Rattle.srt_route.specs.RouteKeys.{RouteKeys as Keys, secures};
ghost use Rattle.srt_route.specs.SlotKeys.{place_keys_of, slot_keys_of};
ghost use Rattle.srt_route.specs.StoredKeys.{AreKeys};
ghost use Rattle.srt_route.specs.Tables.{has_subscriber, hears_recently};
ghost use Rattle.srt_route.specs.inside.Files.{AnnouncesAs, EndsFiles, SeatEndsWith, SeatServedWith, ServesSubscribers, ServesWithKeys, TransmitsAs};
ghost use Rattle.srt_route.specs.inside.Files.{receiver_of};
ghost use Rattle.srt_route.specs.inside.Reports.{Queues};
ghost use Rattle.srt_route.specs.Ledgers.{CountsStay};
ghost use Rattle.srt_route.specs.Totals.{SumsGrow};
ghost use Rattle.srt_route.specs.declared.seat.Session.{Session as StoredSession};

use crate::closing::close_seat;
use crate::encrypted_transmit::{KeyReceiver, announce_at_end, transmit_encrypted};
use crate::files::is_file_over;
use crate::ledger::{Ledger, file_cause};
use crate::replies::Reply;
use crate::reply_queue::{ReplyQueue, ScratchBoxes};
use crate::route_keys::RouteKeys;
use crate::seat::{Seat, Session};
use crate::slot_keys::{KeyPlace, SlotKeys};
use crate::table::Table;
use crate::transmit::{transmit_in_clear, transmit_subscriber};
use srt_sub::Subscriber;
use srt_types::Role;

/// Queues the packets of a subscriber, whose session may have keys of its own.
fn transmit_with(
    subscriber: &mut Subscriber,
    keys: &mut SlotKeys,
    to: KeyReceiver,
    scratch: &mut ScratchBoxes,
    waiting: &mut ReplyQueue,
)
    requires { to.clock < 2 ^ 62 }
    ensures { TransmitsAs to (slot_keys_of keys.old) (slot_keys_of keys.new) subscriber.old subscriber.new waiting.old waiting.new }
{
    match keys {
        SlotKeys::Clear => transmit_subscriber(
            subscriber,
            to.peer,
            to.clock,
            to.recent,
            &mut scratch.reply,
            waiting,
        ),
        SlotKeys::Publisher { .. } => transmit_subscriber(
            subscriber,
            to.peer,
            to.clock,
            to.recent,
            &mut scratch.reply,
            waiting,
        ),
        SlotKeys::Subscriber { keys, .. } => {
            transmit_encrypted(subscriber, keys, to, scratch, waiting);
        }
    }
}

/// Queues the packets of a subscriber, whose slot may have keys.
fn transmit_under(
    subscriber: &mut Subscriber,
    place: &mut KeyPlace,
    to: KeyReceiver,
    scratch: &mut ScratchBoxes,
    waiting: &mut ReplyQueue,
)
    requires { to.clock < 2 ^ 62 }
    ensures { TransmitsAs to (place_keys_of place.old) (place_keys_of place.new) subscriber.old subscriber.new waiting.old waiting.new }
{
    if !place.is_held {
        transmit_subscriber(
            subscriber,
            to.peer,
            to.clock,
            to.recent,
            &mut scratch.reply,
            waiting,
        );
        return;
    }
    transmit_with(subscriber, &mut place.keys, to, scratch, waiting);
}

/// Returns the peer of a session, to which its packets are sent.
fn receiver_of(session: &Session, clock: u64, recent: bool) -> KeyReceiver
    ensures { result ≡ receiver_of clock recent session.now }
{
    KeyReceiver {
        peer: session.peer,
        caller: session.caller,
        time: clock.saturating_sub(session.opened),
        clock,
        recent,
    }
}

/// Queues the packets of a seat's subscriber, if one is open, under the keys of its slot.
fn transmit_place(
    seat: &mut Seat,
    place: &mut KeyPlace,
    clock: u64,
    scratch: &mut ScratchBoxes,
    waiting: &mut ReplyQueue,
)
    requires { clock < 2 ^ 62 }
    ensures generation { seat.new.generation ≡ seat.old.generation }
    ensures session { seat.new.session ≡ seat.old.session }
    ensures none { has_subscriber seat.old ≡ false → seat.new.subscriber ≡ seat.old.subscriber }
    ensures silent { has_subscriber seat.old ≡ false → Queues waiting.old waiting.new [] }
    ensures unchanged { has_subscriber seat.old ≡ false → place_keys_of place.new ≡ place_keys_of place.old }
    ensures transmits { has_subscriber seat.old ≡ true → (t : StoredSession) → seat.old.session ≡ Some t →
        TransmitsAs (receiver_of clock (hears_recently clock seat.old) t) (place_keys_of place.old) (place_keys_of place.new)
        seat.old.subscriber seat.new.subscriber waiting.old waiting.new }
{
    if !seat.has_subscriber() {
        return;
    }
    let recent = seat.hears_recently(clock);
    if let Some(session) = &seat.session {
        let to = receiver_of(session, clock, recent);
        transmit_under(&mut seat.subscriber, place, to, scratch, waiting);
    }
}

/// Queues the KMREQ of the next key of a subscriber's session that ends, if it is due. Sessions without keys of their own have
/// none.
fn announce_with(
    subscriber: &Subscriber,
    keys: &mut SlotKeys,
    to: KeyReceiver,
    hand: &mut Box<Reply>,
    waiting: &mut ReplyQueue,
)
    ensures { AnnouncesAs to (slot_keys_of keys.old) (slot_keys_of keys.new) subscriber.now waiting.old waiting.new }
{
    match keys {
        SlotKeys::Clear => {}
        SlotKeys::Publisher { .. } => {}
        SlotKeys::Subscriber { keys, .. } => announce_at_end(subscriber, keys, to, hand, waiting),
    }
}

/// The same of a session whose slot may have keys.
fn announce_under(
    subscriber: &Subscriber,
    slot: &mut KeyPlace,
    to: KeyReceiver,
    hand: &mut Box<Reply>,
    waiting: &mut ReplyQueue,
)
    ensures { AnnouncesAs to (place_keys_of slot.old) (place_keys_of slot.new) subscriber.now waiting.old waiting.new }
{
    if !slot.is_held {
        return;
    }
    announce_with(subscriber, &mut slot.keys, to, hand, waiting);
}

/// The same of the session in a seat, if one is open.
fn announce_place(
    seat: &Seat,
    place: &mut KeyPlace,
    clock: u64,
    hand: &mut Box<Reply>,
    waiting: &mut ReplyQueue,
)
    ensures { (t : StoredSession) → seat.now.session ≡ Some t →
        AnnouncesAs (receiver_of clock false t) (place_keys_of place.old) (place_keys_of place.new) seat.now.subscriber waiting.old waiting.new }
{
    if let Some(session) = &seat.session {
        let to = receiver_of(session, clock, false);
        announce_under(&seat.subscriber, place, to, hand, waiting);
    }
}

/// Queues the packets of a seat's subscriber, if one is open, under the keys of its slot. If it has the `whole` file, its session
/// ends instead, with a SHUTDOWN, before which the KMREQ of its next key is sent if that is due.
fn serve_place(
    seat: &mut Seat,
    place: &mut KeyPlace,
    whole: bool,
    clock: u64,
    scratch: &mut ScratchBoxes,
    waiting: &mut ReplyQueue,
)
    requires { clock < 2 ^ 62 }
    ensures ends { whole ≡ true →
        SeatEndsWith clock (place_keys_of place.old) (place_keys_of place.new) seat.old seat.new waiting.old waiting.new }
    ensures served { whole ≡ false → SeatServedWith clock (place_keys_of place.old) (place_keys_of place.new) seat.old seat.new waiting.old waiting.new }
{
    if whole {
        announce_place(seat, place, clock, &mut scratch.ack, waiting);
        close_seat(seat, clock, &mut scratch.reply, waiting);
        return;
    }
    transmit_place(seat, place, clock, scratch, waiting);
}

/// Queues the packets of the open subscribers, in ascending order of slots, each under the keys of its slot. If a file is
/// complete, the sessions of the subscribers that have all of it end, with a SHUTDOWN.
fn transmit_with_keys(
    table: &mut Table,
    keys: &mut RouteKeys,
    ledger: &mut Ledger,
    clock: u64,
    scratch: &mut ScratchBoxes,
    waiting: &mut ReplyQueue,
)
    requires early { clock < 2 ^ 62 }
    requires places { length keys.old.slots.items ≡ length table.old.seats.items }
    ensures served { ServesWithKeys clock table.old table.new keys.old keys.new waiting.old waiting.new }
    ensures ends { EndsFiles clock table.old ledger.old ledger.new }
    ensures counts { CountsStay ledger.old ledger.new }
    ensures sums { SumsGrow ledger.old.totals ledger.new.totals }
{
    let over = is_file_over(table);
    for at in 0..table.seats.len() {
        let whole = table.seats[at].has_whole_file(over);
        ledger.note(table, at, file_cause(whole), clock);
        serve_place(
            &mut table.seats[at],
            &mut keys.slots[at],
            whole,
            clock,
            scratch,
            waiting,
        );
    }
}

/// Whether subscribers' sessions are encrypted. `places` is the number of the route's slots, as many as have keys then.
pub(crate) fn are_encrypted(keys: &RouteKeys, places: usize) -> bool
    ensures places { result ≡ true → length keys.now.slots.items ≡ places }
    ensures secured { (e : Terms) (m : Keys) → AreKeys e keys.now m → places ≡ e.sessions → result ≡ secures e Request }
{
    if !keys.secures(Role::Request) {
        return false;
    }
    keys.slots.len() == places
}

/// Step 6: queues the packets of the open subscribers, in ascending order of slots, those of a session with keys of its own under
/// them. If a file is complete, the sessions of the subscribers that have all of it end, with a SHUTDOWN.
pub fn transmit_subscribers(
    table: &mut Table,
    keys: &mut RouteKeys,
    ledger: &mut Ledger,
    clock: u64,
    scratch: &mut ScratchBoxes,
    waiting: &mut ReplyQueue,
)
    requires { clock < 2 ^ 62 }
    ensures served { ServesSubscribers clock table.old table.new keys.old keys.new waiting.old waiting.new }
    ensures ends { EndsFiles clock table.old ledger.old ledger.new }
    ensures counts { CountsStay ledger.old ledger.new }
    ensures sums { SumsGrow ledger.old.totals ledger.new.totals }
{
    if !are_encrypted(keys, table.seats.len()) {
        transmit_in_clear(table, ledger, clock, &mut scratch.reply, waiting);
        return;
    }
    transmit_with_keys(table, keys, ledger, clock, scratch, waiting);
}
