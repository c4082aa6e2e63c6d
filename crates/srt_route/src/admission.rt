//! Step 3 of an event, a conclusion of a caller without a session at its route (sections 3.2.1 and 4.3.1.2): every refusal
//! in its order, and the opening of a session. `repeated_conclusion.rt` has one of a caller with a session.

ghost use Rattle.std.specs.Prelude.{◌≡◌, ◌<◌, ◌^◌, ◌∷◌, [], count_by, length, IfOk};
ghost use Rattle.srt_route.specs.Route.{is_buffer, is_crowded, is_reserved, refused};
ghost use Rattle.srt_route.specs.Written.{written};
ghost use Rattle.srt_route.specs.Tables.{has_address};
ghost use Rattle.srt_route.specs.Admission.{admitted};
ghost use Rattle.srt_route.specs.Tallies.{Tallies, admitted_tally};
ghost use Rattle.srt_route.specs.inside.Calls.{Admits, OpensSession, TakesFirst};

use crate::agreement::{Agreement, agree};
use crate::answer_writing::{accepted, answer_to, refusal};
use crate::arrival::Arrival;
use crate::conclusion_reading::Conclusion;
use crate::ledger::Ledger;
use crate::part::Part;
use crate::refusals::RefusalCause;
use crate::replies::Reply;
use crate::seat::{Seat, Session, count_from, count_publishers, count_vacant, free_slot};
use crate::socket_ids::id_at;
use crate::standby::{leading_after, unused_buffers};
use crate::start::start_buffers;
use crate::table::Table;
use srt_types::product_limits::MAX_PUBLISHERS;
use srt_types::protocol_limits::{MAX_MTU, MIN_MTU};
use srt_types::{Mode, Peer, Role};

/// The slot in which a session opens, and the negotiated parameters.
#[derive(Clone, Copy)]
pub struct Admission {
    /// The slot's number, from 0.
    pub at: usize,
    /// The parameters of the session.
    pub agreement: Agreement,
}

fn is_buffer(mode: Mode) -> bool
    ensures { result ≡ is_buffer mode }
{
    matches!(mode, Mode::Buffer)
}

/// Returns the first cause to refuse a conclusion, free slots and limits aside. In order: `MessageApi` if the flag
/// STREAM doesn't match the route's mode; `Rogue` if the MTU is below 76, the flow window is 0, or a subscriber of
/// buffer mode has an MTU below 1500; `Peer` if the caller wants to publish while two publishers are open.
fn refused(mode: Mode, publishers: usize, c: &Conclusion) -> Option<RefusalCause>
    ensures { result ≡ refused mode publishers c.now }
{
    if c.wants_stream != is_buffer(mode) {
        return Some(RefusalCause::MessageApi);
    }
    let publishes = matches!(c.role, Role::Publish);
    if c.mtu < MIN_MTU || c.window == 0 || (!publishes && is_buffer(mode) && c.mtu < MAX_MTU) {
        return Some(RefusalCause::Rogue);
    }
    if publishes && publishers >= MAX_PUBLISHERS {
        return Some(RefusalCause::Peer);
    }
    None
}

/// Whether an address has as many open sessions as it may have. Without a limit no session is counted.
fn is_crowded(limit: Option<u32>, seats: &[Seat], peer: Peer) -> bool
    ensures { result ≡ is_crowded limit (count_by (has_address peer.ip) seats.now) }
{
    match limit {
        Some(limit) => count_from(seats, peer) >= limit as usize,
        None => false,
    }
}

/// Whether all free slots are reserved for publishers that aren't open yet, and the caller isn't one. All numbers are
/// of slots or of sessions, at most 17.
fn is_reserved(reserved: u32, free: usize, publishers: usize, role: Role) -> bool
    ensures { result ≡ is_reserved reserved free publishers role }
{
    match role {
        Role::Publish => false,
        Role::Request => free <= (reserved as usize).saturating_sub(publishers),
    }
}

/// Returns the lowest free slot and the agreement, or the first cause to refuse: one in the conclusion itself, then the
/// limit of the caller's address, no free slot, and free slots that are reserved for publishers.
pub fn admit(table: &Table, peer: Peer, c: &Conclusion) -> Result<Admission, RefusalCause>
    ensures inside { IfOk result (λ a. a.at < length table.now.seats.items) }
    ensures value { Admits table.now peer c.now result }
{
    let publishers = table.open_publishers;
    if let Some(cause) = refused(table.mode, publishers, c) {
        return Err(cause);
    }
    let rules = table.rules;
    if is_crowded(rules.sessions_per_address, &table.seats, peer) {
        return Err(RefusalCause::Address);
    }
    let free = count_vacant(&table.seats);
    match free_slot(&table.seats) {
        Some(at) => {
            if is_reserved(rules.reserved, free, publishers, c.role) {
                return Err(RefusalCause::Reserved);
            }
            Ok(Admission {
                at,
                agreement: agree(table.mode, table.latency_ms, rules, c),
            })
        }
        None => Err(RefusalCause::Resource),
    }
}

/// Opens the session in its slot, which is free, and writes the answer into `reply`. A publisher's session opens only
/// if fewer than two publishers are open, and uses the buffers that the other one doesn't use.
fn open_session(
    table: &mut Table,
    admission: Admission,
    arrival: Arrival,
    c: Conclusion,
    reply: &mut Reply,
)
    requires initial { c.initial < 2 ^ 31 }
    requires inside { admission.at < length table.old.seats.items }
    ensures { OpensSession arrival c admission table.old table.new (written reply.new ∷ []) }
{
    let caller = c.caller;
    let role = c.role;
    let at = admission.at;
    let id = id_at(table.index, table.seats[at].generation, at);
    let buffers = unused_buffers(&table.seats);
    start_buffers(
        &mut table.seats[at],
        &mut table.publishers[buffers.place()],
        arrival,
        admission.agreement,
        &c,
    );
    table.leading = leading_after(table.leading, role, buffers);
    let answer = accepted(admission.agreement, table.buffer, id, c);
    answer_to(reply, arrival.peer, caller, &answer);
    table.seats[at].fill(Session {
        peer: arrival.peer,
        caller,
        id,
        part: Part::opened(role, buffers),
        opened: arrival.clock,
        heard: arrival.clock,
        answer,
    });
    table.open_publishers = count_publishers(&table.seats);
}

/// Admits or refuses a conclusion of a caller without a session, and writes the answer into `reply`.
pub fn consider(
    table: &mut Table,
    ledger: &mut Ledger,
    arrival: Arrival,
    c: Conclusion,
    reply: &mut Reply,
)
    requires { c.initial < 2 ^ 31 }
    ensures taken { TakesFirst arrival c table.old table.new (written reply.new ∷ []) }
    ensures ended { (ledger.new.ended ≡ ledger.old.ended) × (ledger.new.totals ≡ ledger.old.totals) }
    ensures tally { Tallies arrival.clock (λ e sessions. admitted_tally (admitted e arrival.peer sessions c)) table.old ledger.old ledger.new }
{
    match admit(table, arrival.peer, &c) {
        Ok(admission) => {
            ledger.open();
            open_session(table, admission, arrival, c, reply);
        }
        Err(cause) => {
            ledger.refuse(cause);
            answer_to(
                reply,
                arrival.peer,
                c.caller,
                &refusal(c.initial, cause.code()),
            );
        }
    }
}
