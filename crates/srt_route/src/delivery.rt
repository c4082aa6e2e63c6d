//! Step 4 of an event, delivery (sections 4.2, 4.5 and 4.6): the active publisher's payloads are queued for every open
//! subscriber, those of the standby for none (`standby.rt`).

ghost use Rattle.std.specs.Prelude.{◌≡◌, ℕ, ◌<◌, ◌≤◌, ◌^◌, true, false, None, List, count_by, is_some, length};
ghost use Rattle.srt_types.specs.Terms.{Terms};
ghost use Rattle.srt_pub.specs.Calls.{room_after, next_delivery, after_delivery};
ghost use Rattle.srt_pub.specs.Changes.{BecomesAt, HoldsOfAt};
ghost use Rattle.srt_route.specs.Sessions.{Session};
ghost use Rattle.srt_route.specs.Route.{least_room, delivered};
ghost use Rattle.srt_route.specs.Seats.{has_publisher};
ghost use Rattle.srt_route.specs.Tables.{IsTable, UseTheSame, UseSameBuffers, has_subscriber};
ghost use Rattle.srt_route.specs.inside.OneSession.{IsRoomOf, SubscriberFed};
ghost use Rattle.srt_route.specs.inside.Delivery.{lesser, AreFed, AreGiven, GivesNext, TurnsTo, IsRoomOfAll, PassesOn};
ghost use Rattle.srt_route.specs.inside.Calls.{TableBecomes};

use crate::publisher_buffers::PublisherBuffers;
use crate::seat::Seat;
use crate::standby::{active_buffers, deliver_standby};
use crate::table::Table;
use srt_pub::Publisher;
use srt_types::Mode;
use srt_types::protocol_limits::MAX_PAYLOADS;

/// Returns the number of payloads that fit into the subscriber's send buffer; None if the seat has no open subscriber.
fn room_of(seat: &Seat) -> Option<u32>
    ensures none { has_subscriber seat.now ≡ false → result ≡ None }
    ensures some { has_subscriber seat.now ≡ true → IsRoomOf seat.now.subscriber result }
{
    if seat.has_subscriber() {
        Some(seat.subscriber.room())
    } else {
        None
    }
}

fn lesser(found: Option<u32>, room: Option<u32>) -> Option<u32>
    ensures { result ≡ lesser found room }
{
    match room {
        Some(room) => match found {
            Some(other) => Some(other.min(room)),
            None => Some(room),
        },
        None => found,
    }
}

/// Returns the smallest free space of the open subscribers' send buffers, in payloads; None if no subscriber is open.
fn least_room(table: &Table) -> Option<u32>
    ensures { (e : Terms) (index clock : ℕ) (sessions : List Session) → IsTable e index clock table.now sessions → result ≡ least_room e sessions }
{
    let mut found = None;
    for at in 0..table.seats.len() {
        found = lesser(found, room_of(&table.seats[at]));
    }
    found
}

/// Queues a payload for the subscriber of a seat, if one is open.
fn feed_seat(seat: &mut Seat, clock: u64, payload: &[u8])
    requires early { clock < 2 ^ 62 }
    requires fits { length payload.now ≤ 1456 }
    ensures generation { seat.new.generation ≡ seat.old.generation }
    ensures session { seat.new.session ≡ seat.old.session }
    ensures none { has_subscriber seat.old ≡ false → seat.new.subscriber ≡ seat.old.subscriber }
    ensures some { has_subscriber seat.old ≡ true → SubscriberFed clock payload.now seat.old.subscriber seat.new.subscriber }
{
    if !seat.has_subscriber() {
        return;
    }
    let _ = seat.subscriber.feed(payload, clock);
}

/// Queues a payload for each open subscriber.
pub fn feed(seats: &mut [Seat], clock: u64, payload: &[u8])
    requires early { clock < 2 ^ 62 }
    requires fits { length payload.now ≤ 1456 }
    ensures { AreFed clock payload.now seats.old seats.new }
{
    for at in 0..seats.len() {
        feed_seat(&mut seats[at], clock, payload);
    }
}

/// Returns the room after a payload: one less in buffer mode, unchanged in live mode, which has no such limit.
fn room_after(mode: Mode, room: u32) -> u32
    ensures { result ≡ room_after mode room }
{
    match mode {
        Mode::Live => room,
        Mode::Buffer => room.saturating_sub(1),
    }
}

/// Passes the publisher's next payload to each open subscriber, which copies it, and records it as delivered. Returns
/// false if none is due.
fn pass_on(publisher: &mut Publisher, seats: &mut [Seat], clock: u64, room: u32) -> bool
    requires { clock < 2 ^ 62 }
    ensures given { HoldsOfAt clock publisher.old (λ terms time q. result ≡ is_some (next_delivery terms time room q)) }
    ensures publisher { BecomesAt clock publisher.old publisher.new (λ terms time q. after_delivery terms (next_delivery terms time room q) q) }
    ensures seats { HoldsOfAt clock publisher.old (λ terms time q. AreGiven clock (next_delivery terms time room q) seats.old seats.new) }
    ensures same_length { length seats.new ≡ length seats.old }
    ensures publishers { count_by has_publisher seats.new ≡ count_by has_publisher seats.old }
    ensures stays { UseSameBuffers seats.old seats.new }
{
    let Some(payload) = publisher.next_due(clock, room) else {
        return false;
    };
    feed(seats, clock, payload);
    publisher.note_delivered(clock, room)
}

/// Queues the next payload of the publisher with the buffers `which` for each open subscriber. False if none is due.
fn deliver_next(table: &mut Table, which: PublisherBuffers, clock: u64, room: u32) -> bool
    requires { clock < 2 ^ 62 }
    ensures given { GivesNext which clock room table.old result }
    ensures table { TurnsTo which clock room table.old table.new }
    ensures stays { UseTheSame table.old table.new }
{
    let publisher = &mut table.publishers[which.place()];
    pass_on(publisher, &mut table.seats, clock, room)
}

/// Queues the due payloads of the publisher with the buffers `which` for each open subscriber, one by one: at most 64.
fn deliver_each(table: &mut Table, which: PublisherBuffers, clock: u64, room: u32)
    requires { clock < 2 ^ 62 }
    ensures table { PassesOn which clock room table.old table.new }
    ensures stays { UseTheSame table.old table.new }
{
    let mut room = room;
    for turn in 0..MAX_PAYLOADS {
        if !deliver_next(table, which, clock, room) {
            return;
        }
        room = room_after(table.mode, room);
    }
}

/// Returns the number of payloads that fit into the send buffer of every open subscriber in buffer mode, 0 if none is
/// open. In live mode, where the room is ignored, no seat is read.
pub fn room_of_all(table: &Table) -> u32
    ensures { IsRoomOfAll table.now result }
{
    match table.mode {
        Mode::Live => 0,
        Mode::Buffer => least_room(table).unwrap_or(0),
    }
}

/// Delivers the payloads that are due, at most 64 of each publisher, with one copy for each open subscriber. In buffer
/// mode a payload is delivered only if at least one subscriber is open and every open one has room for it.
pub fn deliver(table: &mut Table, clock: u64)
    requires early { clock < 2 ^ 62 }
    ensures { TableBecomes clock table.old table.new (λ e. delivered e clock) }
{
    let Some(active) = active_buffers(table) else {
        return;
    };
    let room = room_of_all(table);
    deliver_each(table, active, clock, room);
    deliver_standby(table, active, clock);
}
