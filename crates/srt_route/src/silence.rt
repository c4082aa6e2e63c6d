//! Step 2 of an event: sessions whose peer is idle end, with a SHUTDOWN on a route for libsrt callers; subscribers drop
//! what is too late to send (sections 4.5 and 4.6); and the standby takes over if it is due.

ghost use Rattle.std.specs.Prelude.{◌≡◌, ◌<◌, ◌^◌, true, false};
ghost use Rattle.srt_route.specs.Buffers.{ExpiresTo};
ghost use Rattle.srt_route.specs.Sessions.{has_fallen_silent};
ghost use Rattle.srt_route.specs.Tables.{has_expired, peer_idle, is_kept_subscriber, is_stored_over, stored_aged, with_stored};
ghost use Rattle.srt_route.specs.Seats.{session_passes};
ghost use Rattle.srt_route.specs.Ledgers.{idle_cause, time_cause};
ghost use Rattle.srt_route.specs.inside.Calls.{AdvancesTo, AgesAndLeads, AgesTo, TellsIdle};
ghost use Rattle.srt_route.specs.inside.Notes.{NotesEach};
ghost use Rattle.srt_route.specs.inside.OneSession.{shutdowns_if};
ghost use Rattle.srt_route.specs.inside.Reports.{Queues};

use crate::closing::tell_end;
use crate::files::{note_end, of_libsrt, silent_end};
use crate::ledger::{EndCause, Ledger};
use crate::replies::Reply;
use crate::reply_queue::ReplyQueue;
use crate::seat::{Seat, Session, count_expired, recounted};
use crate::standby::take_over;
use crate::table::Table;
use srt_types::Callers;
use srt_types::protocol_limits::PEER_IDLE_TIMEOUT_US;

/// The time that a session drains beyond its delay, in microseconds (our choice): as long as a silent peer's session stays.
pub const DRAIN_TIMEOUT_US: u64 = PEER_IDLE_TIMEOUT_US;

/// Whether five seconds have passed since a peer was last heard, in microseconds.
fn has_fallen_silent(heard: u64, clock: u64) -> bool
    ensures { result ≡ has_fallen_silent heard clock }
{
    clock.saturating_sub(heard) >= PEER_IDLE_TIMEOUT_US
}

/// Whether the session's peer sent nothing for five seconds, or the session is given up; false for a session that drains,
/// whose packets are ignored.
fn is_silent(session: &Session, clock: u64) -> bool
    ensures { result ≡ peer_idle clock session.now }
{
    if session.part.is_given_up() {
        return true;
    }
    match session.part.until() {
        Some(_) => false,
        None => has_fallen_silent(session.heard, clock),
    }
}

/// Whether the session has expired: its peer sent nothing for five seconds, it is given up, or it drains and its time has
/// expired.
fn is_over(session: &Session, clock: u64) -> bool
    ensures { result ≡ is_stored_over clock session.now }
{
    match session.part.until() {
        Some(until) => clock >= until,
        None => is_silent(session, clock),
    }
}

/// Returns the cause of an end by time.
fn time_cause(drains: Option<u64>) -> EndCause
    ensures { result ≡ time_cause drains }
{
    match drains {
        Some(_) => EndCause::DrainedTooLong,
        None => EndCause::Silence,
    }
}

impl Seat {
    /// Whether the session's peer sent nothing for five seconds, or the session is given up; false for a session that drains.
    fn peer_idle(&self, clock: u64) -> bool
        ensures { result ≡ session_passes (peer_idle clock) self.now.session }
    {
        self.session
            .as_ref()
            .is_some_and(|session| is_silent(session, clock))
    }

    /// Returns the cause if the session has expired: its peer was silent for five seconds, the session is given up, or it
    /// drained for too long.
    pub fn end_by_time(&self, clock: u64) -> Option<EndCause>
        ensures { result ≡ idle_cause clock self.now.session }
    {
        match &self.session {
            Some(session) => {
                if is_over(session, clock) {
                    Some(time_cause(session.part.until()))
                } else {
                    None
                }
            }
            None => None,
        }
    }

    /// Ends the session if it has expired.
    fn end_if_over(&mut self, clock: u64)
        ensures { self.new ≡ with_stored (stored_aged clock self.old.session) self.old }
    {
        if self.has_expired(clock) {
            self.session = None;
        }
    }

    /// Whether the session has expired.
    pub fn has_expired(&self, clock: u64) -> bool
        ensures { result ≡ has_expired clock self.now }
    {
        self.session
            .as_ref()
            .is_some_and(|session| is_over(session, clock))
    }

    /// Whether a subscriber's session is open here and hasn't expired.
    fn is_kept_subscriber(&self, clock: u64) -> bool
        ensures { result ≡ session_passes (is_kept_subscriber clock) self.now.session }
    {
        self.session.as_ref().is_some_and(|session| {
            !is_over(session, clock) && !session.part.publishes()
        })
    }
}

/// Advances the time of one seat. Queues the SHUTDOWN of a session that ends, on a route for libsrt callers.
fn pass_time(
    seat: &mut Seat,
    clock: u64,
    callers: Callers,
    hand: &mut Box<Reply>,
    waiting: &mut ReplyQueue,
)
    requires { clock < 2 ^ 62 }
    ensures generation { seat.new.generation ≡ seat.old.generation }
    ensures session { seat.new.session ≡ stored_aged clock seat.old.session }
    ensures expires { session_passes (is_kept_subscriber clock) seat.old.session ≡ true → ExpiresTo clock seat.old.subscriber seat.new.subscriber }
    ensures stays { session_passes (is_kept_subscriber clock) seat.old.session ≡ false → seat.new.subscriber ≡ seat.old.subscriber }
    ensures said { Queues waiting.old waiting.new (shutdowns_if callers (session_passes (peer_idle clock) seat.old.session) clock seat.old.session) }
{
    if seat.is_kept_subscriber(clock) {
        seat.subscriber.expire(clock);
        return;
    }
    let ends = seat.peer_idle(clock);
    tell_end(seat, callers, ends, clock, hand, waiting);
    seat.end_if_over(clock);
}

/// Advances the time to this clock, in microseconds: ends expired sessions, in ascending order of slots, and lets the
/// other subscribers drop what is too late.
fn end_idle(table: &mut Table, clock: u64, hand: &mut Box<Reply>, waiting: &mut ReplyQueue)
    requires early { clock < 2 ^ 62 }
    ensures table { AgesTo clock table.old table.new }
    ensures said { TellsIdle clock table.old waiting.old waiting.new }
{
    let places = table.seats.len();
    let callers = table.rules.callers;
    let mut at = 0;
    while at < places {
        let before = table.seats[at].has_publisher();
        pass_time(&mut table.seats[at], clock, callers, hand, waiting);
        let after = table.seats[at].has_publisher();
        table.open_publishers = recounted(table.open_publishers, before, after);
        at += 1;
    }
}

/// Ends expired sessions, lets the other subscribers drop what is too late, and after all ends lets the standby take
/// over, if it is due.
fn age(table: &mut Table, clock: u64, hand: &mut Box<Reply>, waiting: &mut ReplyQueue)
    requires early { clock < 2 ^ 62 }
    ensures table { AgesAndLeads clock table.old table.new }
    ensures said { TellsIdle clock table.old waiting.old waiting.new }
{
    end_idle(table, clock, hand, waiting);
    take_over(table, clock);
}

/// Advances the time to this clock, in microseconds: ends expired sessions, lets the other subscribers drop what is too
/// late, and after all ends lets the standby take over, if it is due. The ends are recorded, on a route for libsrt
/// callers also in the remaining sessions, if a publisher's session ended.
pub fn advance(
    table: &mut Table,
    ledger: &mut Ledger,
    clock: u64,
    hand: &mut Box<Reply>,
    waiting: &mut ReplyQueue,
)
    requires early { clock < 2 ^ 62 }
    ensures table { AdvancesTo clock table.old table.new }
    ensures said { TellsIdle clock table.old waiting.old waiting.new }
    ensures ended { NotesEach (idle_cause clock) clock table.old ledger.old ledger.new }
{
    if count_expired(&table.seats, clock) == 0 {
        age(table, clock, hand, waiting);
        return;
    }
    ledger.note_idle(table, clock);
    let before = table.open_publishers;
    age(table, clock, hand, waiting);
    let end = silent_end(before, table.open_publishers);
    note_end(table, of_libsrt(table.rules.callers, end));
}
