//! What sessions send at the end of an event: step 5, each publisher's packets, and step 6 of a route whose subscribers have no
//! keys, each subscriber's, in ascending order of slots, or the SHUTDOWN that ends a subscriber's session at the end of a file.

ghost use Rattle.std.specs.Prelude.{◌≡◌, ◌<◌, ◌^◌, [], true, false, map, length};
ghost use Rattle.srt_route.specs.Sessions.{speaks};
ghost use Rattle.srt_route.specs.Route.{packets_where};
ghost use Rattle.srt_route.specs.Tables.{has_subscriber, hears_recently};
ghost use Rattle.srt_route.specs.inside.Delivery.{changed, after_publisher, after_publisher_in, packets_in};
ghost use Rattle.srt_route.specs.inside.Reports.{Queues};
ghost use Rattle.srt_route.specs.inside.OneSession.{PublisherReported, PublisherSaid, SeatSaid, SubscriberReported, SubscriberSaid};
ghost use Rattle.srt_route.specs.inside.Calls.{TableBecomes, Transmits};
ghost use Rattle.srt_route.specs.inside.Files.{EndsFiles, FinishesInClear, SeatEnds, SeatServed, ServesInClear};
ghost use Rattle.srt_route.specs.Ledgers.{CountsStay};
ghost use Rattle.srt_route.specs.Totals.{SumsGrow};

use crate::closing::close_seat;
use crate::files::is_file_over;
use crate::ledger::{Ledger, file_cause};
use crate::replies::Reply;
use crate::reply_queue::{ReplyQueue, ScratchBoxes};
use crate::seat::Seat;
use crate::table::Table;
use srt_pub::Publisher;
use srt_sub::Subscriber;
use srt_types::Peer;

/// One more than the most packets that a subscriber is sent at the end of an event.
const MAX_CALLS: u32 = 66;

/// On a route for libsrt callers, the time since a subscriber's last packet from which on it is sent nothing again
/// without a NAK, in microseconds (our choice).
const RECENT_US: u64 = 1_000_000;

impl Seat {
    /// Whether the session's peer was heard less than a second ago; false if none is open here.
    pub(crate) fn hears_recently(&self, clock: u64) -> bool
        ensures { result ≡ hears_recently clock self.now }
    {
        match &self.session {
            Some(session) => clock.saturating_sub(session.heard) < RECENT_US,
            None => false,
        }
    }
}

/// Queues a publisher's ACK, NAK and KEEPALIVE, in this order, each if it is due (sections 3.2.3 to 3.2.5).
fn transmit_reports(
    publisher: &mut Publisher,
    peer: Peer,
    clock: u64,
    scratch: &mut ScratchBoxes,
    waiting: &mut ReplyQueue,
)
    requires { clock < 2 ^ 62 }
    ensures stands { PublisherReported clock publisher.old publisher.new }
    ensures said { PublisherSaid clock peer publisher.old waiting.old waiting.new }
{
    let reports = publisher.transmit(
        clock,
        &mut scratch.ack.packet,
        &mut scratch.nak.packet,
        &mut scratch.keep_alive.packet,
    );
    waiting.put_to_if(peer, &mut scratch.ack, reports.ack);
    waiting.put_to_if(peer, &mut scratch.nak, reports.nak);
    waiting.put_to_if(peer, &mut scratch.keep_alive, reports.keep_alive);
}

/// Queues the packets of a seat's publisher, if one is open that doesn't drain.
fn transmit_publisher(
    table: &mut Table,
    at: usize,
    clock: u64,
    scratch: &mut ScratchBoxes,
    waiting: &mut ReplyQueue,
)
    requires early { clock < 2 ^ 62 }
    requires inside { at < length table.old.seats.items }
    ensures seats { length table.new.seats.items ≡ length table.old.seats.items }
    ensures table { TableBecomes clock table.old table.new (λ e. map (changed (after_publisher_in e clock at))) }
    ensures said { Transmits clock table.old waiting.old waiting.new (λ e. packets_in e clock speaks at) }
{
    if !table.seats[at].speaks() {
        return;
    }
    let Some(session) = &table.seats[at].session else {
        return;
    };
    transmit_reports(
        &mut table.publishers[session.part.buffers().place()],
        session.peer,
        clock,
        scratch,
        waiting,
    );
}

/// Step 5: queues the packets of the open publishers, in ascending order of slots.
pub fn transmit_publishers(
    table: &mut Table,
    clock: u64,
    scratch: &mut ScratchBoxes,
    waiting: &mut ReplyQueue,
)
    requires { clock < 2 ^ 62 }
    ensures table { TableBecomes clock table.old table.new (λ e. map (changed (after_publisher e clock))) }
    ensures said { Transmits clock table.old waiting.old waiting.new (λ e. packets_where e clock speaks) }
{
    for at in 0..table.seats.len() {
        transmit_publisher(table, at, clock, scratch, waiting);
    }
}

/// Queues a subscriber's drop request, data packets and KEEPALIVE: at most 65. `recent` is whether its peer was heard
/// less than a second ago.
pub(crate) fn transmit_subscriber(
    subscriber: &mut Subscriber,
    peer: Peer,
    clock: u64,
    recent: bool,
    hand: &mut Box<Reply>,
    waiting: &mut ReplyQueue,
)
    requires { clock < 2 ^ 62 }
    ensures stands { SubscriberReported clock recent subscriber.old subscriber.new }
    ensures said { SubscriberSaid clock recent peer subscriber.old waiting.old waiting.new }
{
    for turn in 0..MAX_CALLS {
        if !subscriber.emit(clock, recent, &mut hand.packet) {
            return;
        }
        waiting.put_to(peer, hand);
    }
}

/// Queues the packets of a seat's subscriber, if one is open.
fn transmit_seat(seat: &mut Seat, clock: u64, hand: &mut Box<Reply>, waiting: &mut ReplyQueue)
    requires { clock < 2 ^ 62 }
    ensures generation { seat.new.generation ≡ seat.old.generation }
    ensures session { seat.new.session ≡ seat.old.session }
    ensures none { has_subscriber seat.old ≡ false → seat.new.subscriber ≡ seat.old.subscriber }
    ensures silent { has_subscriber seat.old ≡ false → Queues waiting.old waiting.new [] }
    ensures stands { has_subscriber seat.old ≡ true → SubscriberReported clock (hears_recently clock seat.old) seat.old.subscriber seat.new.subscriber }
    ensures said { SeatSaid clock seat.old waiting.old waiting.new }
{
    if !seat.has_subscriber() {
        return;
    }
    let recent = seat.hears_recently(clock);
    if let Some(session) = &seat.session {
        transmit_subscriber(
            &mut seat.subscriber,
            session.peer,
            clock,
            recent,
            hand,
            waiting,
        );
    }
}

/// Queues the packets of a seat's subscriber, if one is open. If it has the `whole` file, its session ends instead,
/// with a SHUTDOWN.
fn serve_seat(
    seat: &mut Seat,
    whole: bool,
    clock: u64,
    hand: &mut Box<Reply>,
    waiting: &mut ReplyQueue,
)
    requires { clock < 2 ^ 62 }
    ensures ends { whole ≡ true → SeatEnds clock seat.old seat.new waiting.old waiting.new }
    ensures served { whole ≡ false → SeatServed clock seat.old seat.new waiting.old waiting.new }
{
    if whole {
        close_seat(seat, clock, hand, waiting);
        return;
    }
    transmit_seat(seat, clock, hand, waiting);
}

/// Step 6 without keys: queues the packets of the open subscribers, in ascending order of slots. If a file is complete, the
/// sessions of the subscribers that have all of it end, with a SHUTDOWN.
pub fn transmit_in_clear(
    table: &mut Table,
    ledger: &mut Ledger,
    clock: u64,
    hand: &mut Box<Reply>,
    waiting: &mut ReplyQueue,
)
    requires { clock < 2 ^ 62 }
    ensures table { FinishesInClear clock table.old table.new }
    ensures said { ServesInClear clock table.old waiting.old waiting.new }
    ensures ends { EndsFiles clock table.old ledger.old ledger.new }
    ensures counts { CountsStay ledger.old ledger.new }
    ensures sums { SumsGrow ledger.old.totals ledger.new.totals }
{
    let over = is_file_over(table);
    for at in 0..table.seats.len() {
        let whole = table.seats[at].has_whole_file(over);
        ledger.note(table, at, file_cause(whole), clock);
        serve_seat(&mut table.seats[at], whole, clock, hand, waiting);
    }
}
