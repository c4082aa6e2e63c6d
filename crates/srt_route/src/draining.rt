//! Draining, on a route for libsrt callers: a publisher's session that its peer ended continues while something of it
//! is left to deliver. It accepts and sends no packets any more, stays active, and ends once nothing is left or its
//! time has expired.

ghost use Rattle.std.specs.Prelude.{◌≡◌, ◌<◌, ◌^◌, length};
ghost use Rattle.srt_packet.specs.View.{body_of};
ghost use Rattle.srt_route.specs.Route.{drain_end};
ghost use Rattle.srt_route.specs.Ledgers.{CountsStay};
ghost use Rattle.srt_route.specs.Parts.{part_extended};
ghost use Rattle.srt_route.specs.Sessions.{renewed};
ghost use Rattle.srt_route.specs.Tables.{seat_settled};
ghost use Rattle.srt_route.specs.Totals.{SumsGrow};
ghost use Rattle.srt_route.specs.inside.Drains.{DeliversAndEnds, DeliversAndSettles, Drains, DrainsFrom, EndsAtDelivery, EndsDrained, EndsSettled};
ghost use Rattle.srt_route.specs.inside.Drains.{GivesSome, HasLeft, IsDrained, SettlesTo};
ghost use Rattle.srt_route.specs.inside.OneSession.{end_unless};

use crate::delivery::{deliver, room_of_all};
use crate::files::note_end;
use crate::ledger::{Ledger, drained_cause};
use crate::part::Part;
use crate::seat::{Seat, count_draining, recounted};
use crate::silence::DRAIN_TIMEOUT_US;
use crate::standby::{active_buffers, is_active_by};
use crate::table::Table;
use crate::view::latency_in;
use srt_packet::Kind;
use srt_pub::PubEnd;
use srt_types::{Callers, Mode, Role};

/// Returns the time until which the publisher's session of this slot drains after a packet, in microseconds; None if it
/// doesn't drain. It drains after a SHUTDOWN if it is the active one and something is left to deliver, for its delay
/// and five seconds.
pub fn drains_after(table: &Table, at: usize, kind: &Kind<'_>, clock: u64) -> Option<u64>
    requires early { clock < 2 ^ 62 }
    requires inside { at < length table.now.seats.items }
    ensures { Drains at (body_of kind.now) clock table.now result }
{
    match table.rules.callers {
        Callers::Draft => None,
        Callers::Libsrt => drains_from(table, at, kind, clock),
    }
}

/// The same on a route for libsrt callers.
fn drains_from(table: &Table, at: usize, kind: &Kind<'_>, clock: u64) -> Option<u64>
    requires early { clock < 2 ^ 62 }
    requires inside { at < length table.now.seats.items }
    ensures { DrainsFrom at (body_of kind.now) clock table.now result }
{
    let Kind::Shutdown = kind else {
        return None;
    };
    let active = active_buffers(table);
    match &table.seats[at].session {
        Some(session) => {
            if !is_active_by(active, session) {
                return None;
            }
            if !has_left(table, at) {
                return None;
            }
            let delay = u64::from(latency_in(Role::Publish, &session.answer)) * 1000;
            Some(clock + delay + DRAIN_TIMEOUT_US)
        }
        None => None,
    }
}

/// Whether something is left to deliver of the session that is open in this slot: never of a subscriber's.
fn has_left(table: &Table, at: usize) -> bool
    requires { at < length table.now.seats.items }
    ensures { HasLeft at table.now result }
{
    match &table.seats[at].session {
        Some(session) => {
            if !session.part.publishes() {
                return false;
            }
            table.publishers[session.part.buffers().place()].has_undelivered()
        }
        None => false,
    }
}

/// Returns the cause for which a packet ends a publisher's session, unless the session drains from then on.
pub fn end_unless(drains: Option<u64>, end: Option<PubEnd>) -> Option<PubEnd>
    ensures { result ≡ end_unless drains end }
{
    match drains {
        Some(_) => None,
        None => end,
    }
}

/// Whether the active publisher has a payload to deliver now.
fn gives_some(table: &Table, clock: u64) -> bool
    requires { clock < 2 ^ 62 }
    ensures { GivesSome clock table.now result }
{
    match active_buffers(table) {
        Some(active) => {
            let room = room_of_all(table);
            table.publishers[active.place()]
                .next_due(clock, room)
                .is_some()
        }
        None => false,
    }
}

/// Whether a session drains in this slot with nothing left to deliver.
fn is_drained(table: &Table, at: usize) -> bool
    requires { at < length table.now.seats.items }
    ensures { IsDrained at table.now result }
{
    match &table.seats[at].session {
        Some(session) => {
            if !session.part.drains() {
                return false;
            }
            !has_left(table, at)
        }
        None => false,
    }
}

/// Returns the time until which a session drains after an event's deliveries: in buffer mode, each delivery extends it
/// to five seconds from then.
fn renewed(mode: Mode, delivered: bool, clock: u64, until: u64) -> u64
    requires { clock < 2 ^ 62 }
    ensures { result ≡ renewed mode delivered clock until }
{
    match mode {
        Mode::Live => until,
        Mode::Buffer => {
            if delivered {
                clock + DRAIN_TIMEOUT_US
            } else {
                until
            }
        }
    }
}

/// Returns the part of a session after an event's deliveries: if it drains, its time is extended.
fn extended(part: Part, mode: Mode, delivered: bool, clock: u64) -> Part
    requires { clock < 2 ^ 62 }
    ensures { result ≡ part_extended (renewed mode delivered clock) part }
{
    match part {
        Part::Publisher { .. } => part,
        Part::Draining { buffers, until } => Part::Draining {
            buffers,
            until: renewed(mode, delivered, clock, until),
        },
        Part::Subscriber { .. } => part,
    }
}

impl Seat {
    /// After an event's deliveries: ends the session here if it `ends`; otherwise, if it drains, extends its time.
    fn settle(&mut self, ends: bool, mode: Mode, delivered: bool, clock: u64)
        requires { clock < 2 ^ 62 }
        ensures { self.new ≡ seat_settled ends mode delivered clock self.old }
    {
        if ends {
            self.session = None;
            return;
        }
        if let Some(session) = &mut self.session {
            session.part = extended(session.part, mode, delivered, clock);
        }
    }
}

/// Whether a draining session ended, from the number of open publishers before and after: `Some(true)`, since its own
/// SHUTDOWN ended it.
fn drain_end(before: usize, after: usize) -> Option<bool>
    ensures { result ≡ drain_end before after }
{
    if after < before { Some(true) } else { None }
}

/// After an event's deliveries: ends each draining session that has nothing left.
fn settle_each(table: &mut Table, ledger: &mut Ledger, delivered: bool, clock: u64)
    requires { clock < 2 ^ 62 }
    ensures table { SettlesTo clock delivered table.old table.new }
    ensures ends { EndsDrained clock table.old ledger.old ledger.new }
    ensures counts { CountsStay ledger.old ledger.new }
    ensures sums { SumsGrow ledger.old.totals ledger.new.totals }
{
    let mode = table.mode;
    let active = active_buffers(table);
    for at in 0..table.seats.len() {
        let ends = is_drained(table, at);
        ledger.note_by(table, active, at, drained_cause(ends), clock);
        let before = table.seats[at].has_publisher();
        table.seats[at].settle(ends, mode, delivered, clock);
        let after = table.seats[at].has_publisher();
        table.open_publishers = recounted(table.open_publishers, before, after);
    }
}

/// Step 4: the publishers deliver, and each draining session that has nothing left ends.
pub fn deliver_and_settle(table: &mut Table, ledger: &mut Ledger, clock: u64)
    requires { clock < 2 ^ 62 }
    ensures table { DeliversAndSettles clock table.old table.new }
    ensures ends { EndsSettled clock table.old ledger.old ledger.new }
    ensures counts { CountsStay ledger.old ledger.new }
    ensures sums { SumsGrow ledger.old.totals ledger.new.totals }
{
    match table.rules.callers {
        Callers::Draft => deliver(table, clock),
        Callers::Libsrt => deliver_and_end(table, ledger, clock),
    }
}

/// The same on a route for libsrt callers. Only a session that drains can end here: while none does, this is the delivery
/// alone.
fn deliver_and_end(table: &mut Table, ledger: &mut Ledger, clock: u64)
    requires { clock < 2 ^ 62 }
    ensures table { DeliversAndEnds clock table.old table.new }
    ensures ends { EndsAtDelivery clock table.old ledger.old ledger.new }
    ensures counts { CountsStay ledger.old ledger.new }
    ensures sums { SumsGrow ledger.old.totals ledger.new.totals }
{
    if count_draining(&table.seats) == 0 {
        deliver(table, clock);
        return;
    }
    let delivered = gives_some(table, clock);
    deliver(table, clock);
    let before = table.open_publishers;
    settle_each(table, ledger, delivered, clock);
    let end = drain_end(before, table.open_publishers);
    note_end(table, end);
}
