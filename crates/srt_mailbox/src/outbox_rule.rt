//! The rule of the outbox: which end may perform which operations, and which replies each end knows of. A *pass* is
//! the right to use the queue; each of the two ends has one. Views, rules, splits, outcomes and lessons exist only for
//! proofs.

ghost use Rattle.std.specs.Prelude.{◌≡◌};

use crossbeam_queue::protocol::{Join, Lesson, Outcome, Protocol, Split};
use crossbeam_queue::{Pass, RuledArrayQueue};
use srt_route::Reply;
use std::collections::LinkedList;
use std::marker::Model;

/// An outbox entry: a reply in its box, and possibly a used datagram buffer on its way back to the poller. Contracts
/// see only the reply.
#[derive(Drop)]
pub struct Parcel {
    reply: Box<Reply>,
    // the datagram's buffer; its bytes are no longer used
    buffer: Option<Vec<u8>>,
}

impl Model for Parcel {
    ghost use Rattle.std.specs.Global.{Box};
    ghost use Rattle.srt_route.specs.declared.replies.Reply.{Reply as TheReply};

    ghost Value = { Box TheReply };

    ghost view = { λ s. s.reply };
}

impl Parcel {
    /// Makes an entry of a reply, and of a buffer for reuse if there is one.
    #[inline(always)]
    pub fn new(reply: Box<Reply>, buffer: Option<Vec<u8>>) -> Parcel
        ensures { result ≡ reply }
    {
        Parcel { reply, buffer }
    }

    /// Returns the reply and the buffer.
    #[inline(always)]
    pub fn into_parts(self) -> (Box<Reply>, Option<Vec<u8>>)
        ensures { result.0 ≡ self }
    {
        let Parcel { reply, buffer } = self;
        (reply, buffer)
    }
}

/// The rights of a pass of the outbox, and the operations performed with them, oldest first. No value of it is ever
/// made.
pub struct OutboxView {
    /// Whether it may put replies.
    pub puts: bool,
    /// Whether it may drain replies.
    pub drains: bool,
    /// The replies that it put.
    pub put: LinkedList<Parcel>,
    /// The replies that it drained.
    pub drained: LinkedList<Parcel>,
}

/// The rule: the replies drained, followed by those in the queue, are the replies that were put, in order.
pub struct OutboxRule;

impl Protocol<Parcel, OutboxView> for OutboxRule {
    ghost use Rattle.srt_mailbox.specs.Outbox.{Kept, fresh};

    ghost holds = { Kept };

    ghost first = { fresh };
}

/// Splits off the drain's pass, and joins it again.
pub struct Draining;

impl Split<OutboxView> for Draining {
    ghost use Rattle.srt_mailbox.specs.Outbox.{without_drain, drain};

    ghost left = { without_drain };

    ghost right = { drain };
}

impl Join<OutboxView> for Draining {
    ghost use Rattle.srt_mailbox.specs.Outbox.{with_drain, nobody};

    ghost both = { with_drain };

    ghost spent = { nobody };
}

/// Operation: the route puts a reply.
pub struct Puts;

impl Outcome<Parcel, OutboxView> for Puts {
    ghost use Rattle.srt_mailbox.specs.Outbox.{Put};

    ghost then = { Put };
}

impl Lesson<Parcel, OutboxView> for Puts {
    ghost use Rattle.srt_mailbox.specs.Outbox.{StoodAsPut, replies_in};

    ghost fact = { λ v items. StoodAsPut (replies_in v.put) items };
}

/// Operation: the drain receives a reply.
pub struct Drains;

impl Outcome<Parcel, OutboxView> for Drains {
    ghost use Rattle.srt_mailbox.specs.Outbox.{Drained};

    ghost then = { Drained };
}

impl Lesson<Parcel, OutboxView> for Drains {
    ghost use Rattle.srt_mailbox.specs.Outbox.{StoodAsDrained, replies_in};

    ghost fact = { λ v items. StoodAsDrained (replies_in v.drained) items };
}

/// Operation: the pass that has both rights reads the number of remaining replies.
pub struct RepliesLeft;

impl Lesson<Parcel, OutboxView> for RepliesLeft {
    ghost use Rattle.srt_mailbox.specs.Outbox.{KnowsAll};

    ghost fact = { KnowsAll };
}

/// The queue of an outbox: bounded, first in, first out.
pub type Outbox = RuledArrayQueue<Parcel, OutboxView, OutboxRule>;

/// A pass of an outbox.
pub type OutboxPass = Pass<Parcel, OutboxView>;
