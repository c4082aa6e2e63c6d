//! A route that was taken out of its cell for good.
//!
//! It can't be dropped. Only `settle` ends a `TakenRoute`, so a call that loses the route doesn't compile.

ghost use Rattle.std.specs.Prelude.{◌≡◌};
ghost use Rattle.srt_mailbox.specs.Looks.{WasShown};
ghost use Rattle.srt_mailbox.specs.Runs.{Replays};
ghost use Rattle.srt_mailbox.specs.Settled.{IsAccountOf};

use crate::accounts::Account;
use crate::cells::Boxed;
use crate::inbox::{ClockEnd, Ingress};
use crate::observer::Observer;
use crate::outbox::Drain;
use crate::slots::TakenOut;
use std::marker::Model;
use std::sync::Wait;

/// A route that was taken out of its cell for good, in its box. Contracts see it as a `Run`.
pub struct TakenRoute {
    boxed: Boxed,
}

impl Model for TakenRoute {
    ghost use Rattle.srt_mailbox.specs.Runs.{Run};

    ghost Value = { Run };

    ghost view = { λ s. s.boxed.running.value };
}

impl TakenRoute {
    /// The route that was taken out.
    pub(crate) fn new(out: TakenOut<Boxed>) -> TakenRoute
        ensures { result ≡ out.value.running.value }
    {
        let TakenOut { value: boxed } = out;
        TakenRoute { boxed }
    }

    /// Shows the route once to `look`.
    pub(crate) fn show<L: Observer>(&self, look: &mut L)
        ensures { WasShown self.now (L.noted look.old look.new) }
    {
        self.boxed.running.show(look);
    }

    /// Finalises the route and returns its final counters. The three ends must be of its two queues. Messages and
    /// replies remaining in the queues are counted and discarded. Doesn't allocate.
    pub fn settle<R: Wait>(self, rt: &R, ingress: Ingress, clock: ClockEnd, drain: Drain) -> Account
        requires inbox { (ingress.queue ≡ self.inbox.queue) × (clock.queue ≡ self.inbox.queue) }
        requires outbox { drain.queue ≡ self.outbox.queue }
        ensures account { IsAccountOf result self ingress clock drain }
        ensures replays { Replays self }
    {
        let TakenRoute { boxed } = self;
        Box::into_inner(boxed.running).settle(rt, ingress, clock, drain)
    }
}
