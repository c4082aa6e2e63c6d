//! Finalising a route: consumes its four ends and returns the final counters.

ghost use Rattle.std.specs.Prelude.{◌≡◌, true, IfOk, IfErr};
ghost use Rattle.srt_mailbox.specs.Cells.{AreEndsOf};
ghost use Rattle.srt_mailbox.specs.Identities.{identity_in};
ghost use Rattle.srt_mailbox.specs.Runs.{Replays};
ghost use Rattle.srt_mailbox.specs.Settled.{IsAccountOf, Settles};
ghost use Rattle.srt_mailbox.specs.Taken.{is_for_good};

use crate::cells::RouteCell;
use crate::inbox::{ClockEnd, Ingress};
use crate::outbox::Drain;
use crate::running::Running;
use crate::slots::TakenElsewhere;
use std::sync::Wait;

/// The final counters of a route: messages processed, drained replies and what remains in its queues.
#[derive(Clone, Copy, Debug, PartialEq, Eq)]
pub struct Account {
    /// Messages that the route received from its inbox and processed. Saturates at 2^64 - 1.
    pub taken: u64,
    /// Messages remaining in the inbox, never processed.
    pub left: u64,
    /// Replies that wait in the route, not yet in the outbox.
    pub waiting: u64,
    /// Replies remaining in the outbox.
    pub queued: u64,
    /// Replies removed by `Drain::take`. Saturates at 2^64 - 1.
    pub drained: u64,
}

/// The error of `settle`: another call had claimed the route. Returns the four ends unchanged, with evidence of that.
#[derive(Drop)]
pub struct Unsettled {
    /// The poller's end of the inbox.
    pub ingress: Ingress,
    /// The clock's end of the inbox.
    pub clock: ClockEnd,
    /// The route's cell.
    pub cell: RouteCell,
    /// The end of the outbox.
    pub drain: Drain,
    /// Evidence that another call had taken the route.
    pub taken: TakenElsewhere,
}

impl Running {
    /// Finalises the route and returns its final counters. The three ends must be of its two queues. Messages and
    /// replies remaining in the queues are counted and discarded. Doesn't allocate.
    pub fn settle<R: Wait>(self, rt: &R, ingress: Ingress, clock: ClockEnd, drain: Drain) -> Account
        requires inbox { (ingress.queue ≡ self.inbox.queue) × (clock.queue ≡ self.inbox.queue) }
        requires outbox { drain.queue ≡ self.outbox.queue }
        ensures account { IsAccountOf result self ingress clock drain }
        ensures replays { Replays self }
    {
        let parts = self.into_parts();
        let left = parts.receiver.settle(rt, ingress, clock);
        let (queued, drained) = parts.sender.settle(rt, drain);
        Account {
            taken: parts.taken,
            left: left as u64,
            waiting: parts.waiting as u64,
            queued: queued as u64,
            drained,
        }
    }
}

/// Finalises a route and returns its final counters. The four ends must be from one `open_route`. If another call has
/// claimed the route, `Unsettled` returns them unchanged. Messages and replies remaining in the queues are counted and
/// discarded. Doesn't allocate.
pub fn settle<R: Wait>(
    rt: &R,
    ingress: Ingress,
    clock: ClockEnd,
    cell: RouteCell,
    drain: Drain,
) -> Result<Account, Unsettled>
    requires { AreEndsOf (identity_in cell) ingress clock drain }
    ensures settled { IfOk result (λ account. Settles account (identity_in cell) ingress clock drain) }
    ensures busy { IfErr result (λ ends. (ends.ingress ≡ ingress) × (ends.clock ≡ clock) × (ends.cell ≡ cell) × (ends.drain ≡ drain)) }
    ensures taken { IfErr result (λ ends. is_for_good ends.taken ≡ true) }
{
    match cell.into_route() {
        Ok(route) => Ok(route.settle(rt, ingress, clock, drain)),
        Err((cell, taken)) => Err(Unsettled {
            ingress,
            clock,
            cell,
            drain,
            taken,
        }),
    }
}
