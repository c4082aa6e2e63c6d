//! Opening a route with its two queues.

ghost use Rattle.std.specs.Prelude.{◌≡◌, ◌<◌, ◌≤◌, [], None, Some, Err, IfOk, IfErr};
ghost use Rattle.srt_types.specs.declared.shared.OpenFault.{OpenFault as TheFault};
ghost use Rattle.srt_types.specs.Terms.{Terms, terms_of};
ghost use Rattle.srt_route.specs.Opening.{fault_of};
ghost use Rattle.srt_route.specs.Stands.{stands, waiting};
ghost use Rattle.srt_mailbox.specs.Cells.{identity_of};
ghost use Rattle.srt_mailbox.specs.Ends.{producer, pipe, drained, AreNew};
ghost use Rattle.srt_mailbox.specs.Identities.{identity_in};

use crate::cells::{Boxed, CellTag, RouteCell};
use crate::inbox::{ClockEnd, Ingress, open_inbox};
use crate::outbox::{Drain, open_outbox};
use crate::running::{RouteEnds, Running};
use srt_route::Route;
use srt_types::{Entry, OpenFault};
use std::alloc::{AllocError, Global};
use std::snapshot::Snapshot;

// Opens both queues. Returns the ends of the poller and of the clock, and those of the route.
fn open_queues(
    alloc: Global,
    entry: &Entry,
) -> Result<(Ingress, ClockEnd, Drain, RouteEnds), AllocError>
    requires inbox { 0 < entry.now.inbox }
    requires outbox { (0 < entry.now.outbox) × (entry.now.outbox ≤ 4096) }
    ensures inbox { IfOk result (λ r. AreNew entry.now.inbox r.0 r.1 r.3.receiver) }
    ensures sender { IfOk result (λ r. r.3.sender ≡ pipe r.3.sender.queue entry.now.outbox []) }
    ensures drain { IfOk result (λ r. r.2 ≡ drained r.3.sender.queue entry.now.outbox [] r.2.hand) }
{
    let (ingress, clock, receiver) = open_inbox(alloc, entry.inbox as usize)?;
    let (sender, drain, boxes) = open_outbox(alloc, entry.outbox as usize)?;
    let ends = RouteEnds {
        receiver,
        sender,
        boxes,
    };
    Ok((ingress, clock, drain, ends))
}

// Returns the identity of the route between the queues of these ends.
fn tag_of(ends: &RouteEnds, entry: &Entry, index: usize) -> Result<CellTag, AllocError>
    ensures { IfOk result (λ tag. tag ≡ identity_of (terms_of entry.now) index ends.now.receiver.queue ends.now.sender.queue) }
{
    Ok(CellTag {
        inbox: ends.receiver.share()?,
        outbox: ends.sender.share()?,
        entry: Snapshot::of(entry),
        index: Snapshot::of(&index),
    })
}

// Makes the cell of an opened route, with its ends of both queues.
fn cell_of(
    alloc: Global,
    ends: RouteEnds,
    route: Route,
    entry: &Entry,
    index: usize,
) -> Result<RouteCell, AllocError>
    requires stands { stands route (terms_of entry.now) index [] }
    requires none_waits { waiting route ≡ [] }
    requires empty { (ends.receiver.taken ≡ []) × (ends.sender.put ≡ []) }
    ensures { IfOk result (λ cell. identity_in cell ≡ identity_of (terms_of entry.now) index ends.receiver.queue ends.sender.queue) }
{
    let tag = tag_of(&ends, entry, index)?;
    let boxed = Boxed {
        running: Box::new(alloc, Running::new(ends, route, entry, index))?,
    };
    Ok(RouteCell::new(index, boxed, &tag))
}

// Makes the queues and the cell of an opened route, and returns the four ends.
fn joined(
    alloc: Global,
    route: Route,
    entry: &Entry,
    index: usize,
) -> Result<(Ingress, ClockEnd, RouteCell, Drain), AllocError>
    requires sound { fault_of (terms_of entry.now) index ≡ None }
    requires stands { stands route (terms_of entry.now) index [] }
    requires none_waits { waiting route ≡ [] }
    ensures name { IfOk result (λ r. ((identity_in r.2).terms ≡ terms_of entry.now) × ((identity_in r.2).index ≡ index)) }
    ensures ingress { IfOk result (λ r. r.0 ≡ producer (identity_in r.2).inbox entry.now.inbox []) }
    ensures clock { IfOk result (λ r. r.1 ≡ producer (identity_in r.2).inbox entry.now.inbox []) }
    ensures drain { IfOk result (λ r. r.3 ≡ drained (identity_in r.2).outbox entry.now.outbox [] r.3.hand) }
{
    let (ingress, clock, drain, ends) = open_queues(alloc, entry)?;
    let cell = cell_of(alloc, ends, route, entry, index)?;
    Ok((ingress, clock, cell, drain))
}

/// Opens a route that has processed no message yet, with empty queues. Returns its four ends: the poller's and the
/// clock's of the inbox, the route's cell, and the drain of the outbox. The inbox has room for `entry.inbox` messages
/// and the outbox for `entry.outbox` replies. Allocates everything that the route will ever need.
///
/// Errors, in this order: `Names` if the route's name is malformed, `Limits` if a number or the index is out of range,
/// `OutOfMemory`. Nothing is kept after an error.
pub fn open_route(
    alloc: Global,
    entry: &Entry,
    index: usize,
) -> Result<(Ingress, ClockEnd, RouteCell, Drain), OpenFault>
    ensures name { IfOk result (λ r. ((identity_in r.2).terms ≡ terms_of entry.now) × ((identity_in r.2).index ≡ index)) }
    ensures ingress { IfOk result (λ r. r.0 ≡ producer (identity_in r.2).inbox entry.now.inbox []) }
    ensures clock { IfOk result (λ r. r.1 ≡ producer (identity_in r.2).inbox entry.now.inbox []) }
    ensures drain { IfOk result (λ r. r.3 ≡ drained (identity_in r.2).outbox entry.now.outbox [] r.3.hand) }
    ensures sound { IfOk result (λ _. fault_of (terms_of entry.now) index ≡ None) }
    ensures fault { (fault : TheFault) → fault_of (terms_of entry.now) index ≡ Some fault → result ≡ Err fault }
    ensures memory { fault_of (terms_of entry.now) index ≡ None → IfErr result (λ fault. fault ≡ OpenFault.OutOfMemory) }
{
    let route = Route::open(alloc, entry, index)?;
    match joined(alloc, route, entry, index) {
        Ok(ends) => Ok(ends),
        Err(_) => Err(OpenFault::OutOfMemory),
    }
}
