//! The two publishers of a route. The one that was opened first is active, and the other is the standby. A publisher
//! that is open alone is active, so the standby takes over when the active one ends. A route may also have a time
//! without data from the active publisher after which the standby takes over and becomes active.

ghost use Rattle.std.specs.Prelude.{◌≡◌, ◌<◌, ◌^◌, Some, None};
ghost use Rattle.srt_route.specs.Sessions.{marked_if, takeover_us, takes_over};
ghost use Rattle.srt_route.specs.inside.Calls.{TableBecomes};
ghost use Rattle.srt_route.specs.declared.publisher_buffers.PublisherBuffers.{PublisherBuffers as TheBuffers};
ghost use Rattle.srt_route.specs.inside.OneSession.{PublisherStoodBy};
ghost use Rattle.srt_route.specs.inside.Standby.{active_in, unused_buffers, leading_after, is_active_by, HasFailed, HasNone, IsActiveOf, IsDue, StandsBy};

use crate::publisher_buffers::PublisherBuffers;
use crate::seat::{Seat, Session, count_draining, have_publisher};
use crate::table::Table;
use srt_pub::Publisher;
use srt_types::protocol_limits::MAX_PAYLOADS;
use srt_types::{Mode, Role};

/// Returns the buffers for a publisher that opens while at most one is open: those that the open one doesn't use,
/// otherwise the first.
pub fn unused_buffers(seats: &[Seat]) -> PublisherBuffers
    ensures { result ≡ unused_buffers seats.now }
{
    if have_publisher(seats, PublisherBuffers::First) {
        PublisherBuffers::Second
    } else {
        PublisherBuffers::First
    }
}

/// Returns which buffers the active one of two open publishers uses after a session opened. A publisher that opens
/// leaves the lead to the other buffers; a subscriber changes nothing.
pub fn leading_after(
    leading: PublisherBuffers,
    role: Role,
    opened: PublisherBuffers,
) -> PublisherBuffers
    ensures { result ≡ leading_after leading role opened }
{
    match role {
        Role::Publish => opened.other(),
        Role::Request => leading,
    }
}

/// Returns the time without data after which the standby takes over, in microseconds: in live mode, if the route has
/// one. `takeover_ms` is in milliseconds, at most 5000.
fn takeover_us(mode: Mode, takeover_ms: Option<u32>) -> Option<u64>
    ensures { result ≡ takeover_us mode takeover_ms }
{
    match mode {
        Mode::Live => match takeover_ms {
            Some(ms) => Some(1000 * u64::from(ms)),
            None => None,
        },
        Mode::Buffer => None,
    }
}

/// Whether the active one of two open publishers has failed at this clock: for `limit` microseconds it received no
/// data, and the standby received some.
fn has_failed(table: &Table, limit: u64, clock: u64) -> bool
    ensures { HasFailed limit clock table.now result }
{
    let leading = table.leading;
    let other = leading.other();
    if !have_publisher(&table.seats, leading) {
        return false;
    }
    if !have_publisher(&table.seats, other) {
        return false;
    }
    if table.publishers[leading.place()].silent_for(clock) < limit {
        return false;
    }
    table.publishers[other.place()].silent_for(clock) < limit
}

/// Whether the standby takes over at this clock. It never does while a session drains.
fn is_takeover_due(table: &Table, clock: u64) -> bool
    ensures { IsDue clock table.now result }
{
    match takeover_us(table.mode, table.rules.takeover_ms) {
        Some(limit) => {
            if count_draining(&table.seats) != 0 {
                return false;
            }
            has_failed(table, limit, clock)
        }
        None => false,
    }
}

/// Lets the standby take over, if that is due.
pub fn take_over(table: &mut Table, clock: u64)
    ensures { TableBecomes clock table.old table.new (λ e sessions. marked_if (takes_over e clock sessions) sessions) }
{
    if is_takeover_due(table, clock) {
        table.leading = table.leading.other();
    }
}

/// Returns the buffers of the active publisher; None if no publisher is open. Of two open publishers the leading one is
/// active, otherwise the only one.
pub fn active_buffers(table: &Table) -> Option<PublisherBuffers>
    ensures value { result ≡ active_in table.now }
    ensures none { result ≡ None → HasNone table.now }
    ensures some { (which : TheBuffers) → result ≡ Some which → IsActiveOf table.now which }
{
    let leading = table.leading;
    if have_publisher(&table.seats, leading) {
        return Some(leading);
    }
    let other = leading.other();
    if have_publisher(&table.seats, other) {
        return Some(other);
    }
    None
}

/// Whether a session is the active publisher's, given the active one's buffers (None if no publisher is open).
pub fn is_active_by(active: Option<PublisherBuffers>, session: &Session) -> bool
    ensures { result ≡ is_active_by active session.now }
{
    match active {
        Some(which) => session.part.publishes_from(which),
        None => false,
    }
}

/// Skips the due payloads of a standby, at most 64: they are recorded as delivered and passed to no subscriber. The
/// standby has no subscribers, so its room is 0. In buffer mode nothing is delivered; in live mode, where the room is
/// ignored, everything that is due.
fn stand_by(publisher: &mut Publisher, clock: u64)
    requires { clock < 2 ^ 62 }
    ensures { PublisherStoodBy clock publisher.old publisher.new }
{
    for turn in 0..MAX_PAYLOADS {
        if !publisher.note_delivered(clock, 0) {
            return;
        }
    }
}

/// Skips the due payloads of the standby while the publisher with the buffers `active` is active. A single publisher
/// has no standby, and no seat is read.
pub fn deliver_standby(table: &mut Table, active: PublisherBuffers, clock: u64)
    requires { clock < 2 ^ 62 }
    ensures { StandsBy active clock table.old table.new }
{
    if table.open_publishers < 2 {
        return;
    }
    let which = active.other();
    if !have_publisher(&table.seats, which) {
        return;
    }
    stand_by(&mut table.publishers[which.place()], clock);
}
