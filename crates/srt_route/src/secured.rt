//! Step 3 of an event on a route with a secured role: the keys of sessions (section 3.2.2; what the draft leaves
//! open is our choice). Everything else is as without keys: see `dispatch.rt` and `admission.rt`.

ghost use Rattle.std.specs.Prelude.{◌≡◌, ◌<◌, ◌≤◌, ◌^◌, ◌++◌, Some, length};
ghost use Rattle.srt_types.specs.Given.{given};
ghost use Rattle.srt_types.specs.Items.{input_of};
ghost use Rattle.srt_types.specs.Terms.{Terms};
ghost use Rattle.srt_packet.specs.View.{packet_of};
ghost use Rattle.srt_route.specs.RouteKeys.{RouteKeys as Keys, request_of, with_slot};
ghost use Rattle.srt_route.specs.Route.{Answers, sent};
ghost use Rattle.srt_route.specs.SlotKeys.{brought_of, place_keys_of};
ghost use Rattle.srt_route.specs.StoredKeys.{AreKeys};
ghost use Rattle.srt_route.specs.Tables.{written_of};
ghost use Rattle.srt_route.specs.Totals.{SumsGrow};
ghost use Rattle.srt_route.specs.Written.{written};
ghost use Rattle.srt_route.specs.inside.Secured.{ConcludesAs, CountsAs, Dispatches, DispatchesWithKeys, IsInside, JudgesConclusion, JudgesFirst};
ghost use Rattle.srt_route.specs.inside.Secured.{JudgesSecured, KeepsOpen, RepeatsFirst};
ghost use Rattle.srt_route.specs.inside.Secured.{SecuresRequest};
ghost use Rattle.srt_route.specs.inside.Secured.{RepeatsOf, RepeatsRequest, SecuresDatagram, SecuresPacket, kept_stored, repeated, verdict_with};

use crate::admission::admit;
use crate::answer_writing::{answer_to, answer_with_keys_to, refusal};
use crate::arrival::Arrival;
use crate::conclusion_reading::{Conclusion, conclusion_in};
use crate::dispatch::{dispatch, to_destination};
use crate::event::Event;
use crate::key_confirmation::confirm_keys;
use crate::key_refresh::{KeyRequestRef, answer_request, request_in};
use crate::key_request_reading::{brought_in, cookie_in};
use crate::key_text::BroughtRef;
use crate::ledger::Ledger;
use crate::refusals::RefusalCause;
use crate::repeated_conclusion::conclude;
use crate::replies::Reply;
use crate::reply_queue::ReplyQueue;
use crate::route_keys::RouteKeys;
use crate::seat::{Seat, slot_of};
use crate::slot_keys::{KeyOpening, KeyPlace, KeyVerdict, SlotKeys};
use crate::socket_ids::{id_at, slot_in};
use crate::table::Table;
use srt_hs::{HsAnswer, RefusalCode};
use srt_packet::{Kind, PacketRef, decode_parts};
use srt_types::protocol_limits::MAX_PAYLOAD;
use srt_types::{Item, Peer};

/// What keys change about a conclusion.
#[derive(Clone, Copy)]
pub enum Verdict {
    /// Nothing.
    Passes,
    /// It is ignored.
    Ignored,
    /// It is refused, since its keys can't be unwrapped.
    Refused,
    /// Its answer repeats the KMREQ block with which the session of this slot opened, if it has keys.
    Repeats(usize),
}

fn verdict_of(verdict: KeyVerdict, slot: usize) -> Verdict
    ensures { result ≡ verdict_with verdict slot }
{
    match verdict {
        KeyVerdict::TooMany => Verdict::Ignored,
        KeyVerdict::WrongSecret => Verdict::Refused,
        KeyVerdict::Opened => Verdict::Repeats(slot),
    }
}

/// Opens the keys of a session, for a conclusion for a secured role of a caller without an open session, if no other
/// cause refuses it.
fn open_keys(
    table: &Table,
    keys: &mut RouteKeys,
    arrival: Arrival,
    cookie: u32,
    c: &Conclusion,
    brought: &BroughtRef<'_>,
) -> Verdict
    requires early { arrival.clock < 2 ^ 62 }
    requires places { length keys.old.slots.items ≡ length table.now.seats.items }
    ensures judged { JudgesFirst arrival cookie c.now (brought_of brought.now) table.now keys.old keys.new result }
    ensures repeats { RepeatsFirst arrival c.now table.now result }
    ensures inside { IsInside (length table.now.seats.items) result }
    ensures places { length keys.new.slots.items ≡ length keys.old.slots.items }
{
    match admit(table, arrival.peer, c) {
        Ok(admission) => {
            let slot = admission.at;
            let opening = KeyOpening {
                clock: arrival.clock,
                peer: arrival.peer,
                cookie,
                role: c.role,
                id: id_at(table.index, table.seats[slot].generation, slot),
                slot,
            };
            verdict_of(keys.open_session(opening, brought), slot)
        }
        Err(_) => Verdict::Passes,
    }
}

/// Judges a conclusion for a secured role, which brings these keys. `info` is the handshake.
fn judge_secured(
    table: &Table,
    keys: &mut RouteKeys,
    arrival: Arrival,
    info: &[u8],
    c: &Conclusion,
) -> Verdict
    requires early { arrival.clock < 2 ^ 62 }
    requires places { length keys.old.slots.items ≡ length table.now.seats.items }
    ensures judged { JudgesSecured arrival info.now c.now table.now keys.old keys.new result }
    ensures repeats { RepeatsOf arrival c.now table.now result }
    ensures inside { IsInside (length table.now.seats.items) result }
    ensures places { length keys.new.slots.items ≡ length keys.old.slots.items }
{
    let Some(brought) = brought_in(info) else {
        return Verdict::Ignored;
    };
    match slot_of(&table.seats, arrival.peer, c.caller) {
        Some(at) => Verdict::Repeats(at),
        None => open_keys(table, keys, arrival, cookie_in(info), c, &brought),
    }
}

/// Judges a conclusion. `info` is the handshake, the bytes after the packet's header. One for a secured role is ignored
/// unless it brings one message that reads.
fn judge(
    table: &Table,
    keys: &mut RouteKeys,
    arrival: Arrival,
    info: &[u8],
    c: &Conclusion,
) -> Verdict
    requires early { arrival.clock < 2 ^ 62 }
    requires places { length keys.old.slots.items ≡ length table.now.seats.items }
    ensures judged { JudgesConclusion arrival info.now c.now table.now keys.old keys.new result }
    ensures repeats { RepeatsOf arrival c.now table.now result }
    ensures inside { IsInside (length table.now.seats.items) result }
    ensures places { length keys.new.slots.items ≡ length keys.old.slots.items }
{
    if keys.secures(c.role) {
        return judge_secured(table, keys, arrival, info, c);
    }
    match slot_of(&table.seats, arrival.peer, c.caller) {
        Some(slot) => Verdict::Repeats(slot),
        None => Verdict::Passes,
    }
}

/// Processes a conclusion as judged. Returns true if `reply` has an answer.
fn conclude_as(
    table: &mut Table,
    ledger: &mut Ledger,
    verdict: Verdict,
    arrival: Arrival,
    c: Conclusion,
    reply: &mut Reply,
) -> bool
    requires { c.initial < 2 ^ 31 }
    ensures taken { ConcludesAs verdict arrival c table.old table.new (written_of (given result reply.new)) }
    ensures ended { (ledger.new.ended ≡ ledger.old.ended) × (ledger.new.totals ≡ ledger.old.totals) }
    ensures tally { CountsAs verdict arrival c table.old ledger.old ledger.new }
{
    match verdict {
        Verdict::Passes => conclude(table, ledger, arrival, c, reply),
        Verdict::Ignored => false,
        Verdict::Refused => {
            ledger.refuse(RefusalCause::Secret);
            answer_to(
                reply,
                arrival.peer,
                c.caller,
                &refusal(c.initial, RefusalCode::BadSecret),
            );
            true
        }
        Verdict::Repeats(_) => conclude(table, ledger, arrival, c, reply),
    }
}

/// Writes the answer again with the contents of the KMREQ block, if the session has keys.
fn repeat(place: &KeyPlace, peer: Peer, caller: u32, answer: &HsAnswer, reply: &mut Reply)
    ensures { written reply.old ≡ sent (record { peer = peer; packet = Answers caller answer.now })
        → written reply.new ≡ sent (repeated (request_of (place_keys_of place.now)) (record { peer = peer; packet = Answers caller answer.now })) }
{
    if !place.is_held {
        return;
    }
    match &place.keys {
        SlotKeys::Clear => {}
        SlotKeys::Publisher { request, .. } => {
            answer_with_keys_to(reply, peer, caller, answer, request)
        }
        SlotKeys::Subscriber { request, .. } => {
            answer_with_keys_to(reply, peer, caller, answer, request)
        }
    }
}

/// Writes the answer of the session of this slot again with the contents of its KMREQ block, if it has keys.
fn repeat_request(table: &Table, keys: &RouteKeys, slot: usize, peer: Peer, reply: &mut Reply)
    ensures { RepeatsRequest table.now keys.now slot peer reply.old reply.new }
{
    if slot >= table.seats.len() {
        return;
    }
    if slot >= keys.slots.len() {
        return;
    }
    if let Some(session) = &table.seats[slot].session {
        repeat(
            &keys.slots[slot],
            peer,
            session.caller,
            &session.answer,
            reply,
        );
    }
}

/// Processes a packet for a session, a publisher's in clear. Returns true if `reply` has an answer.
fn to_secured_session(
    table: &mut Table,
    keys: &mut RouteKeys,
    ledger: &mut Ledger,
    arrival: Arrival,
    packet: &PacketRef<'_>,
    reply: &mut Reply,
) -> bool
    requires stamp { arrival.stamp ≡ packet.now.stamp }
    requires early { arrival.clock < 2 ^ 62 }
    requires destined { 0 < packet.now.dest }
    requires places { length keys.old.slots.items ≡ length table.old.seats.items }
    ensures secured { SecuresPacket arrival (packet_of packet.now) table.old table.new keys.old keys.new (written_of (given result reply.new))
        ledger.old ledger.new }
    ensures sums { SumsGrow ledger.old.totals ledger.new.totals }
{
    let at = slot_in(packet.dest);
    if at >= table.seats.len() {
        return to_destination(table, ledger, arrival, packet, reply);
    }
    if !table.seats[at].is_for(arrival.peer, packet.dest) {
        return to_destination(table, ledger, arrival, packet, reply);
    }
    let mut place = [0u8; MAX_PAYLOAD];
    let clear = keys.decrypt(at, *packet, &mut place);
    to_destination(table, ledger, arrival, &clear, reply)
}

/// Processes a packet. Returns true if `reply` has an answer.
fn to_secured_destination(
    table: &mut Table,
    keys: &mut RouteKeys,
    ledger: &mut Ledger,
    arrival: Arrival,
    packet: &PacketRef<'_>,
    reply: &mut Reply,
) -> bool
    requires stamp { arrival.stamp ≡ packet.now.stamp }
    requires early { arrival.clock < 2 ^ 62 }
    requires places { length keys.old.slots.items ≡ length table.old.seats.items }
    ensures secured { SecuresPacket arrival (packet_of packet.now) table.old table.new keys.old keys.new (written_of (given result reply.new))
        ledger.old ledger.new }
    ensures sums { SumsGrow ledger.old.totals ledger.new.totals }
{
    if packet.dest != 0 {
        return to_secured_session(table, keys, ledger, arrival, packet, reply);
    }
    let Kind::Handshake { info } = packet.kind else {
        return false;
    };
    let Some(c) = conclusion_in(info) else {
        return false;
    };
    let verdict = judge(table, keys, arrival, info, &c);
    let answered = conclude_as(table, ledger, verdict, arrival, c, reply);
    if let Verdict::Repeats(slot) = verdict {
        repeat_request(table, keys, slot, arrival.peer, reply);
    }
    answered
}

/// Processes a KMREQ. Returns true if `reply` has an answer.
fn take_request(
    table: &mut Table,
    keys: &mut RouteKeys,
    ledger: &mut Ledger,
    arrival: Arrival,
    request: &KeyRequestRef<'_>,
    reply: &mut Reply,
) -> bool
    requires stamp { arrival.stamp ≡ request.now.packet.stamp }
    requires early { arrival.clock < 2 ^ 62 }
    requires fits { length request.now.contents.now ≤ 1456 }
    requires places { length keys.old.slots.items ≡ length table.old.seats.items }
    ensures secured { SecuresRequest arrival (Some request.now.contents.now) (packet_of request.now.packet) table.old table.new keys.old keys.new
        (written_of (given result reply.new)) ledger.old ledger.new }
    ensures sums { SumsGrow ledger.old.totals ledger.new.totals }
{
    match answer_request(table, keys, arrival, request) {
        Some(response) => {
            to_destination(table, ledger, arrival, &request.packet, reply);
            response.write(request.contents, reply);
            true
        }
        None => to_secured_destination(table, keys, ledger, arrival, &request.packet, reply),
    }
}

/// Removes the keys of a slot whose session has ended.
fn keep_slot(seat: &Seat, keys: &mut RouteKeys, at: usize)
    requires { at < length keys.old.slots.items }
    ensures keys { (e : Terms) (m : Keys) → AreKeys e keys.old m → AreKeys e keys.new (with_slot at (kept_stored seat.now.session (m.held at)) m) }
    ensures places { length keys.new.slots.items ≡ length keys.old.slots.items }
{
    if seat.session.is_none() {
        keys.clear(at);
    }
}

/// Removes the keys of slots whose sessions have ended.
fn keep_open(table: &Table, keys: &mut RouteKeys)
    requires places { length keys.old.slots.items ≡ length table.now.seats.items }
    ensures kept { KeepsOpen table.now keys.old keys.new }
    ensures places { length keys.new.slots.items ≡ length keys.old.slots.items }
{
    for at in 0..table.seats.len() {
        keep_slot(&table.seats[at], keys, at);
    }
}

/// A datagram, borrowed from the item.
#[derive(Clone, Copy)]
struct DatagramRef<'a> {
    /// The sender.
    peer: Peer,
    /// The first 16 bytes.
    head: &'a [u8; 16],
    /// The bytes after them.
    body: &'a [u8],
}

/// Processes a datagram at this clock. Returns true if `hand` has an answer.
fn take_secured(
    table: &mut Table,
    keys: &mut RouteKeys,
    ledger: &mut Ledger,
    clock: u64,
    datagram: DatagramRef<'_>,
    hand: &mut Box<Reply>,
) -> bool
    requires early { clock < 2 ^ 62 }
    requires places { length keys.old.slots.items ≡ length table.old.seats.items }
    ensures secured { SecuresDatagram clock datagram.entry.peer (datagram.entry.head.now ++ datagram.entry.body.now) table.old table.new keys.old keys.new
        (written_of (given result hand.new.value)) ledger.old ledger.new }
    ensures sums { SumsGrow ledger.old.totals ledger.new.totals }
{
    match decode_parts(datagram.head, datagram.body) {
        Ok(packet) => {
            let arrival = Arrival {
                clock,
                peer: datagram.peer,
                stamp: packet.stamp,
            };
            match request_in(datagram.head, datagram.body) {
                Some(contents) => {
                    let request = KeyRequestRef { packet, contents };
                    take_request(table, keys, ledger, arrival, &request, hand)
                }
                None => to_secured_destination(table, keys, ledger, arrival, &packet, hand),
            }
        }
        Err(_) => false,
    }
}

/// Processes an item on a route with a secured role, and queues the replies to it. A tick changes nothing here.
fn dispatch_with_keys(
    table: &mut Table,
    keys: &mut RouteKeys,
    ledger: &mut Ledger,
    event: Event<'_>,
    hand: &mut Box<Reply>,
    waiting: &mut ReplyQueue,
)
    requires early { event.clock < 2 ^ 62 }
    requires places { length keys.old.slots.items ≡ length table.old.seats.items }
    ensures dispatched { DispatchesWithKeys event.entry.clock (input_of event.entry.item.now) table.old table.new keys.old keys.new waiting.old waiting.new
        ledger.old ledger.new }
    ensures sums { SumsGrow ledger.old.totals ledger.new.totals }
{
    match event.item {
        Item::Datagram {
            peer,
            moment: _,
            head,
            body,
        } => {
            let datagram = DatagramRef {
                peer: *peer,
                head,
                body,
            };
            let answered = take_secured(table, keys, ledger, event.clock, datagram, hand);
            waiting.put_if(hand, answered);
        }
        Item::Tick { moment: _ } => {
            dispatch(table, ledger, event.clock, event.item, hand, waiting);
        }
        Item::Close { moment: _ } => {
            dispatch(table, ledger, event.clock, event.item, hand, waiting);
        }
    }
}

/// Processes an item, and queues the replies to it. On a route without a secured role nothing but what `dispatch` does.
pub fn dispatch_secured(
    table: &mut Table,
    keys: &mut RouteKeys,
    ledger: &mut Ledger,
    event: Event<'_>,
    hand: &mut Box<Reply>,
    waiting: &mut ReplyQueue,
)
    requires { event.clock < 2 ^ 62 }
    ensures dispatched { Dispatches event.entry.clock (input_of event.entry.item.now) table.old table.new keys.old keys.new waiting.old waiting.new
        ledger.old ledger.new }
    ensures sums { SumsGrow ledger.old.totals ledger.new.totals }
{
    if !keys.are_for(table.seats.len()) {
        dispatch(table, ledger, event.clock, event.item, hand, waiting);
        return;
    }
    keep_open(table, keys);
    confirm_keys(table, keys, event.item);
    dispatch_with_keys(table, keys, ledger, event, hand, waiting);
}
