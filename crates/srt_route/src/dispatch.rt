//! Step 3 of an event: a datagram belongs to an open session or is a conclusion; any other datagram changes nothing. A
//! Close ends every session.

ghost use Rattle.std.specs.Prelude.{◌≡◌, ◌<◌, ◌^◌, ◌++◌};
ghost use Rattle.srt_types.specs.Given.{given};
ghost use Rattle.srt_types.specs.Items.{input_of};
ghost use Rattle.srt_packet.specs.View.{body_of, packet_of};
ghost use Rattle.srt_sub.specs.Endings.{is_ended, is_shutdown};
ghost use Rattle.srt_sub.specs.Stands.{texts_of};
ghost use Rattle.srt_route.specs.Buffers.{datagrams_to};
ghost use Rattle.srt_route.specs.Tables.{stored_after, written_of};
ghost use Rattle.srt_route.specs.inside.OneSession.{PublisherTook, PublisherEndsFor, SubscriberTook, SubscriberAnswers};
ghost use Rattle.srt_packet.specs.Reading.{packet_in};
ghost use Rattle.srt_route.specs.Ledgers.{CountsStay};
ghost use Rattle.srt_route.specs.Ends.{Ends, arrived_ending, destined_ending, read_ending, item_ending};
ghost use Rattle.srt_route.specs.Totals.{SumsGrow};
ghost use Rattle.srt_route.specs.Tallies.{Tallies, item_tally, packet_tally, read_tally};
ghost use Rattle.srt_route.specs.inside.Calls.{AnswersItem, AnswersPacket, TakenBySession, TakesDatagram, TakesItem, TakesPacket};

use crate::arrival::{Arrival, Receipt};
use crate::closing::{close_seats, tell_lost};
use crate::conclusion_reading::conclusion_in;
use crate::draining::{drains_after, end_unless};
use crate::files::{note_end, of_libsrt, shutdown_end};
use crate::ledger::{Ledger, cause_of, shutdown_cause};
use crate::repeated_conclusion::conclude;
use crate::replies::Reply;
use crate::reply_queue::ReplyQueue;
use crate::seat::{Seat, recounted};
use crate::socket_ids::slot_in;
use crate::table::Table;
use srt_packet::{Kind, PacketRef, decode_parts};
use srt_pub::{PubEnd, Publisher};
use srt_sub::Took;
use srt_types::{Item, Peer};

/// Processes a packet in a publisher's buffers. Returns the cause if it ends the session.
fn hear_publisher(publisher: &mut Publisher, clock: u64, packet: &PacketRef<'_>) -> Option<PubEnd>
    requires { clock < 2 ^ 62 }
    ensures publisher { PublisherTook clock (packet_of packet.now) publisher.old publisher.new }
    ensures end { PublisherEndsFor (packet_of packet.now) publisher.old result }
{
    publisher.datagram(packet, clock)
}

fn is_ended(took: Took) -> bool
    ensures { result ≡ is_ended took }
{
    matches!(took, Took::Ended)
}

/// Addresses a subscriber's answer in `reply` to its peer. Returns false if there is none.
fn answer_of(peer: Peer, took: Took, reply: &mut Reply) -> bool
    ensures { written_of (given result reply.new) ≡ datagrams_to peer (texts_of took reply.old.packet) }
{
    match took {
        Took::Answer => {
            reply.peer = peer;
            true
        }
        Took::Nothing => false,
        Took::Ended => false,
    }
}

/// Processes a packet of the subscriber in this seat: its session's time of last reception is updated, or it ends.
/// Returns true if `reply` has an answer.
fn hear_subscriber(
    seat: &mut Seat,
    arrival: Arrival,
    packet: &PacketRef<'_>,
    reply: &mut Reply,
) -> bool
    requires { arrival.clock < 2 ^ 62 }
    ensures subscriber { SubscriberTook arrival.clock (packet_of packet.now) seat.old.subscriber seat.new.subscriber }
    ensures generation { seat.new.generation ≡ seat.old.generation }
    ensures session { seat.new.session ≡ stored_after (is_shutdown (body_of packet.now.kind)) None arrival.clock seat.old.session }
    ensures answer { SubscriberAnswers arrival.clock arrival.peer (packet_of packet.now) seat.old.subscriber (written_of (given result reply.new)) }
{
    let took = seat
        .subscriber
        .datagram(packet, arrival.clock, &mut reply.packet);
    seat.keep_or_end(arrival.clock, is_ended(took), None);
    answer_of(arrival.peer, took, reply)
}

/// Processes a packet whose destination is the socket ID of an open session, if the sender is that session's peer.
/// Returns true if `reply` has an answer: a subscriber's, or the SHUTDOWN of a publisher's session that ends by a lost
/// window.
fn to_session(
    table: &mut Table,
    ledger: &mut Ledger,
    arrival: Arrival,
    packet: &PacketRef<'_>,
    reply: &mut Reply,
) -> bool
    requires { arrival.clock < 2 ^ 62 }
    ensures taken { TakenBySession arrival (packet_of packet.now) table.old table.new (written_of (given result reply.new)) }
    ensures ends { Ends arrival.clock (λ e index. arrived_ending e index arrival.clock arrival.peer (packet_of packet.now)) table.old ledger.old ledger.new }
    ensures counts { CountsStay ledger.old ledger.new }
    ensures sums { SumsGrow ledger.old.totals ledger.new.totals }
{
    let at = slot_in(packet.dest);
    if at >= table.seats.len() {
        return false;
    }
    if !table.seats[at].is_for(arrival.peer, packet.dest) {
        return false;
    }
    if table.seats[at].has_publisher() {
        let which = table.seats[at].used_buffers();
        let drains = drains_after(table, at, &packet.kind, arrival.clock);
        let heard = hear_publisher(&mut table.publishers[which.place()], arrival.clock, packet);
        let end = end_unless(drains, heard);
        ledger.note(table, at, cause_of(end), arrival.clock);
        let notified = tell_lost(
            &table.seats[at],
            table.rules.callers,
            end,
            arrival.clock,
            reply,
        );
        table.seats[at].keep_or_end(arrival.clock, end.is_some(), drains);
        let after = table.seats[at].has_publisher();
        table.open_publishers = recounted(table.open_publishers, true, after);
        note_end(table, of_libsrt(table.rules.callers, shutdown_end(end)));
        return notified;
    }
    ledger.note(table, at, shutdown_cause(&packet.kind), arrival.clock);
    hear_subscriber(&mut table.seats[at], arrival, packet, reply)
}

/// Processes a packet. With destination 0 only a conclusion is accepted; any other destination names a session. Returns
/// true if `reply` has an answer.
pub fn to_destination(
    table: &mut Table,
    ledger: &mut Ledger,
    arrival: Arrival,
    packet: &PacketRef<'_>,
    reply: &mut Reply,
) -> bool
    requires stamp { arrival.stamp ≡ packet.now.stamp }
    requires early { arrival.clock < 2 ^ 62 }
    ensures table { TakesPacket arrival (packet_of packet.now) table.old table.new }
    ensures answer { AnswersPacket arrival (packet_of packet.now) table.old (written_of (given result reply.new)) }
    ensures ends { Ends arrival.clock (λ e index. destined_ending e index arrival.clock arrival.peer (packet_of packet.now)) table.old ledger.old ledger.new }
    ensures tally { Tallies arrival.clock (λ e sessions. packet_tally e arrival.peer (packet_of packet.now) sessions) table.old ledger.old ledger.new }
    ensures sums { SumsGrow ledger.old.totals ledger.new.totals }
{
    if packet.dest != 0 {
        return to_session(table, ledger, arrival, packet, reply);
    }
    let Kind::Handshake { info } = packet.kind else {
        return false;
    };
    let Some(c) = conclusion_in(info) else {
        return false;
    };
    conclude(table, ledger, arrival, c, reply)
}

/// Processes a datagram with this header and these bytes after it. Returns true if `reply` has an answer. A datagram
/// that isn't a packet changes nothing.
fn take_datagram(
    table: &mut Table,
    ledger: &mut Ledger,
    receipt: Receipt,
    head: &[u8; 16],
    body: &[u8],
    reply: &mut Reply,
) -> bool
    requires { receipt.clock < 2 ^ 62 }
    ensures taken { TakesDatagram receipt.clock receipt.peer (head.now ++ body.now) table.old table.new (written_of (given result reply.new)) }
    ensures ends { Ends receipt.clock (λ e index. read_ending e index receipt.clock receipt.peer (packet_in (head.now ++ body.now)))
        table.old ledger.old ledger.new }
    ensures tally { Tallies receipt.clock (λ e sessions. read_tally e receipt.peer (packet_in (head.now ++ body.now)) sessions)
        table.old ledger.old ledger.new }
    ensures sums { SumsGrow ledger.old.totals ledger.new.totals }
{
    match decode_parts(head, body) {
        Ok(packet) => {
            let arrival = Arrival {
                clock: receipt.clock,
                peer: receipt.peer,
                stamp: packet.stamp,
            };
            to_destination(table, ledger, arrival, &packet, reply)
        }
        Err(_) => false,
    }
}

/// Processes an item at this clock, in microseconds, and queues the replies to it. A tick changes nothing here.
pub fn dispatch(
    table: &mut Table,
    ledger: &mut Ledger,
    clock: u64,
    item: &Item,
    hand: &mut Box<Reply>,
    waiting: &mut ReplyQueue,
)
    requires { clock < 2 ^ 62 }
    ensures table { TakesItem clock (input_of item.now) table.old table.new }
    ensures said { AnswersItem clock (input_of item.now) table.old waiting.old waiting.new }
    ensures ends { Ends clock (λ e index. item_ending e index clock (input_of item.now)) table.old ledger.old ledger.new }
    ensures tally { Tallies clock (λ e sessions. item_tally e (input_of item.now) sessions) table.old ledger.old ledger.new }
    ensures sums { SumsGrow ledger.old.totals ledger.new.totals }
{
    match item {
        Item::Tick { moment: _ } => {}
        Item::Close { moment: _ } => {
            ledger.note_closed(table, clock);
            close_seats(table, clock, hand, waiting);
        }
        Item::Datagram {
            peer,
            moment: _,
            head,
            body,
        } => {
            let receipt = Receipt { clock, peer: *peer };
            let answered = take_datagram(table, ledger, receipt, head, body, hand);
            waiting.put_if(hand, answered);
        }
    }
}
