//! Seats: each has one route added at run time, with its ends until their owners take them. The thread that opens a
//! route has no access to the owners' threads; it leaves the ends here, and each owner takes its own.

ghost use Rattle.std.specs.Prelude.{◌≡◌, ℕ, true, Some, None, Err, IfOk, IfErr};
ghost use Rattle.srt_types.specs.declared.shared.OpenFault.{OpenFault as TheFault};
ghost use Rattle.srt_types.specs.Terms.{Terms, terms_of};
ghost use Rattle.srt_route.specs.Opening.{fault_of};
ghost use Rattle.srt_mailbox.specs.Cells.{CellIdentity, AreEndsOf};
ghost use Rattle.srt_mailbox.specs.Identities.{identity_in};
ghost use Rattle.srt_mailbox.specs.Seats.{IsNewPoller, IsNewClock};
ghost use Rattle.srt_mailbox.specs.Looks.{WasShown};
ghost use Rattle.srt_mailbox.specs.Settled.{Settles};
ghost use Rattle.srt_mailbox.specs.Taken.{is_for_good};

use crate::accounts::Account;
use crate::cells::RouteCell;
use crate::inbox::{ClockEnd, Ingress};
use crate::observer::Observer;
use crate::openings::open_route;
use crate::outbox::Drain;
use crate::slots::{Handed, TakenElsewhere};
use counted_slot::{Counted, Fits};
use srt_types::{Entry, OpenFault};
use std::alloc::Global;
use std::marker::Model;
use std::snapshot::Snapshot;
use std::sync::Wait;

/// Data that the poller receives with its ends of an added route, such as the route's name.
pub trait Attachment {
    /// Whether it belongs to a route of these terms and this index.
    ghost belongs: { Terms → ℕ → Self → Type 0 };
}

/// The identity of a seat's route: the tag of its slots. Contracts see it as a `CellIdentity`.
#[derive(Drop)]
pub struct SeatTag {
    cell: Snapshot<RouteCell>,
}

impl Model for SeatTag {
    ghost use Rattle.srt_mailbox.specs.Cells.{CellIdentity};
    ghost use Rattle.srt_mailbox.specs.Identities.{identity_in};

    ghost Value = { CellIdentity };

    ghost view = { λ s. identity_in s.cell.value };
}

/// The poller's ends of an added route, and the data that belongs to it.
#[derive(Drop)]
pub struct PollerEnds<X: Attachment + Drop> {
    /// Offers datagrams.
    pub ingress: Ingress,
    /// Receives replies.
    pub drain: Drain,
    /// The data passed with them.
    pub companion: X,
}

impl<X: Attachment + Drop> Fits for PollerEnds<X> {
    type Tag = SeatTag;

    ghost fits = { λ n e. IsNewPoller n e.ingress e.drain × X.belongs n.terms n.index e.companion };
}

impl<X: Attachment + Drop> Handed for PollerEnds<X> {}

/// The clock's end of an added route.
#[derive(Drop)]
pub struct ClockHand {
    /// Offers ticks.
    pub end: ClockEnd,
}

impl Fits for ClockHand {
    type Tag = SeatTag;

    ghost fits = { λ n h. IsNewClock n h.end };
}

impl Handed for ClockHand {}

/// An added route, and its ends until the poller and the clock's thread take them.
#[derive(Drop)]
pub struct Seat<X: Attachment + Drop> {
    /// The route, which workers serve. It is the first field, so that a worker that finds the place empty or claimed
    /// has read one cache line.
    pub cell: RouteCell,
    // each is there until its owner takes it out
    pub(crate) poller: Counted<Option<PollerEnds<X>>>,
    pub(crate) clock: Counted<Option<ClockHand>>,
    ghost for_poller: { poller ≡ identity_in cell },
    ghost for_clock: { clock ≡ identity_in cell },
}

/// Opens a route as `open_route` does, and returns a seat with the route, all its ends and its data. Allocates
/// everything that the route will ever need, in the calling thread.
///
/// Errors, in this order: `Names` if the route's name is malformed, `Limits` if a number or the index is out of range,
/// `OutOfMemory`. Nothing is kept after an error.
pub fn open_seat<X: Attachment + Drop>(
    alloc: Global,
    entry: &Entry,
    index: usize,
    companion: X,
) -> Result<Seat<X>, OpenFault>
    requires { X.belongs (terms_of entry.now) index companion }
    ensures name { IfOk result (λ s. ((identity_in s.cell).terms ≡ terms_of entry.now) × ((identity_in s.cell).index ≡ index)) }
    ensures sound { IfOk result (λ _. fault_of (terms_of entry.now) index ≡ None) }
    ensures fault { (fault : TheFault) → fault_of (terms_of entry.now) index ≡ Some fault → result ≡ Err fault }
    ensures memory { fault_of (terms_of entry.now) index ≡ None → IfErr result (λ fault. fault ≡ OpenFault.OutOfMemory) }
{
    let (ingress, end, cell, drain) = open_route(alloc, entry, index)?;
    let tag = SeatTag {
        cell: Snapshot::of(&cell),
    };
    let ends = PollerEnds {
        ingress,
        drain,
        companion,
    };
    Ok(Seat {
        cell,
        poller: Counted::new(Some(ends), &tag),
        clock: Counted::new(Some(ClockHand { end }), &tag),
    })
}

impl<X: Attachment + Drop> Seat<X> {
    /// Takes the route out for good, so that no call makes a further turn of it, shows it to `look`, and ends it as `settle`
    /// does; the three ends must be of this seat's route. The error is evidence that another call has the route, or that it
    /// was closed out before; then nothing is shown. What is left in the queues is counted and discarded; the ends are gone
    /// in both cases. Doesn't allocate.
    pub fn close_out<R: Wait, L: Observer>(
        &self,
        rt: &R,
        ingress: Ingress,
        clock: ClockEnd,
        drain: Drain,
        look: &mut L,
    ) -> Result<Account, TakenElsewhere>
        requires { AreEndsOf (identity_in self.now.cell) ingress clock drain }
        ensures settled { IfOk result (λ a. (s : Settles a (identity_in self.now.cell) ingress clock drain) × WasShown s.route (L.noted look.old look.new)) }
        ensures busy { IfErr result (λ _. look.new ≡ look.old) }
        ensures taken { IfErr result (λ e. is_for_good e ≡ true) }
    {
        match self.cell.take() {
            Ok(route) => {
                route.show(look);
                Ok(route.settle(rt, ingress, clock, drain))
            }
            Err(elsewhere) => Err(elsewhere),
        }
    }
}
