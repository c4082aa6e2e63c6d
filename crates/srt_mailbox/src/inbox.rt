//! The three ends of an inbox: two offer messages (the poller, the clock), one receives them (the route).

ghost use Rattle.std.specs.Prelude.{◌≡◌, ◌<◌, ◌^◌, [], ◌∷◌, ◌++◌, IfOk, OnOk, IfErr, IfSome, MatchResult};
ghost use Rattle.std.specs.Arc.{arc_value};
ghost use Rattle.crossbeam_queue.specs.Fifo.{Held};
ghost use Rattle.srt_types.specs.Items.{input_of, moment_of};
ghost use Rattle.srt_types.specs.declared.shared.Item.TheVariants.{Datagram, Close};
ghost use Rattle.srt_mailbox.specs.Ends.{producer, consumer, AreNew, AreLeft};
ghost use Rattle.srt_mailbox.specs.Inbox.{StoodAsPolled, StoodAsTicked, StoodAsTaken};

use crate::evidence::{InboxFull, WasEmpty, find_empty, find_full, pop, push};
use crate::inbox_rule::{
    Inbox, InboxEntry, InboxPass, InboxView, ItemsLeft, Polling, Polls, PollsDatagram, Takes,
    Ticking, Ticks,
};
use srt_types::{Item, Peer};
use std::alloc::{AllocError, Global};
use std::marker::Model;
use std::sync::{Arc, Wait};

/// The error of `offer`: the inbox was full at some time during the call. It returns the message.
#[derive(Debug, Drop)]
pub struct OfferFault {
    /// The message that was offered, unchanged.
    pub item: Item,
    /// Evidence that the inbox was full.
    pub evidence: InboxFull,
}

/// The poller's end of a route's inbox. Contracts see which inbox it is, its capacity, and the messages of this end
/// that it accepted.
#[derive(Drop)]
pub struct Ingress {
    queue: Arc<Inbox>,
    pass: InboxPass,
    alloc: Global,
}

impl Model for Ingress {
    ghost use Rattle.std.specs.Prelude.{◌≡◌, true};
    ghost use Rattle.std.specs.Arc.{arc_value};
    ghost use Rattle.crossbeam_queue.specs.Passes.{IsPassOf, ruled_capacity};
    ghost use Rattle.srt_mailbox.specs.Ends.{Producer, producer};

    ghost Value = { Producer };

    ghost view = { λ s. producer s.pass.table_id (ruled_capacity (arc_value s.queue)) s.pass.me.0.client.polled };

    ghost invariant = { λ s. IsPassOf (arc_value s.queue) s.pass × (s.pass.me.0.client.polls ≡ true) };
}

/// The clock's end of a route's inbox. Contracts see which inbox it is, its capacity, and the messages of this end
/// that it accepted.
#[derive(Drop)]
pub struct ClockEnd {
    queue: Arc<Inbox>,
    pass: InboxPass,
    alloc: Global,
}

impl Model for ClockEnd {
    ghost use Rattle.std.specs.Prelude.{◌≡◌, true};
    ghost use Rattle.std.specs.Arc.{arc_value};
    ghost use Rattle.crossbeam_queue.specs.Passes.{IsPassOf, ruled_capacity};
    ghost use Rattle.srt_mailbox.specs.Ends.{Producer, producer};

    ghost Value = { Producer };

    ghost view = { λ s. producer s.pass.table_id (ruled_capacity (arc_value s.queue)) s.pass.me.0.client.ticked };

    ghost invariant = { λ s. IsPassOf (arc_value s.queue) s.pass × (s.pass.me.0.client.ticks ≡ true) };
}

/// The route's end of its inbox. Contracts see which inbox it is, its capacity, and the messages that were
/// received.
#[derive(Drop)]
pub struct InboxReceiver {
    queue: Arc<Inbox>,
    pass: InboxPass,
}

impl Model for InboxReceiver {
    ghost use Rattle.std.specs.Prelude.{◌≡◌, true};
    ghost use Rattle.std.specs.Arc.{arc_value};
    ghost use Rattle.crossbeam_queue.specs.Passes.{IsPassOf, ruled_capacity};
    ghost use Rattle.srt_mailbox.specs.Ends.{Consumer, consumer};

    ghost Value = { Consumer };

    ghost view = { λ s. consumer s.pass.table_id (ruled_capacity (arc_value s.queue)) s.pass.me.0.client.taken };

    ghost invariant = { λ s. IsPassOf (arc_value s.queue) s.pass × (s.pass.me.0.client.takes ≡ true) };
}

impl Ingress {
    /// Appends a message to the inbox. `OfferFault` returns it if the inbox was full at some time during the call;
    /// then nothing changed. Its `moment` is in microseconds, below 2^62. Doesn't allocate.
    pub fn offer<R: Wait>(&mut self, rt: &R, item: Item) -> Result<(), OfferFault>
        requires timely { moment_of (input_of item) < 2 ^ 62 }
        ensures ok { OnOk result (self.new ≡ producer self.old.queue self.old.capacity (self.old.offered ++ item ∷ [])) }
        ensures full { IfErr result (λ full. (full.item ≡ item) × (self.new ≡ self.old) × Held self.old.capacity (StoodAsPolled self.old.offered)) }
        ensures evidence { IfErr result (λ full. (full.evidence.queue ≡ self.old.queue) × (full.evidence.polled ≡ self.old.offered)) }
    {
        let entry = InboxEntry::new(self.alloc, true, item);
        match push::<Polls, _, _, _, R>(&self.queue, rt, &mut self.pass, entry) {
            Ok(()) => Ok(()),
            Err((back, full)) => Err(OfferFault {
                item: back.into_item(),
                evidence: InboxFull::new(full),
            }),
        }
    }

    /// Appends a datagram to the inbox, as `offer` does with its message. The error is evidence that the inbox was
    /// full at some time during the call; then nothing changed, and the datagram is discarded. `moment` is in
    /// microseconds, below 2^62. Doesn't allocate. The datagram is passed by its parts: an `Item` that is passed on is
    /// copied four times by overlapping words, and the processor stalls at each copy.
    #[inline(always)]
    pub fn offer_datagram<R: Wait>(
        &mut self,
        rt: &R,
        peer: Peer,
        moment: u64,
        head: [u8; 16],
        body: Vec<u8>,
    ) -> Result<(), InboxFull>
        requires timely { moment < 2 ^ 62 }
        ensures accepted { OnOk result (self.new ≡ producer self.old.queue self.old.capacity (self.old.offered ++ Datagram peer moment head body ∷ [])) }
        ensures full { IfErr result (λ _. (self.new ≡ self.old) × Held self.old.capacity (StoodAsPolled self.old.offered)) }
        ensures evidence { IfErr result (λ full. (full.queue ≡ self.old.queue) × (full.polled ≡ self.old.offered)) }
    {
        let entry = InboxEntry::datagram(true, peer, moment, head, body);
        match push::<PollsDatagram, _, _, _, R>(&self.queue, rt, &mut self.pass, entry) {
            Ok(()) => Ok(()),
            Err((_, full)) => Err(InboxFull::new(full)),
        }
    }

    /// Appends Close to the inbox, as `offer` does with its message. The error is evidence that the inbox was full at some time
    /// during the call; then nothing changed. `moment` is in microseconds, below 2^62. Doesn't allocate.
    pub fn offer_close<R: Wait>(&mut self, rt: &R, moment: u64) -> Result<(), InboxFull>
        requires timely { moment < 2 ^ 62 }
        ensures accepted { OnOk result (self.new ≡ producer self.old.queue self.old.capacity (self.old.offered ++ Close moment ∷ [])) }
        ensures full { IfErr result (λ _. (self.new ≡ self.old) × Held self.old.capacity (StoodAsPolled self.old.offered)) }
        ensures evidence { IfErr result (λ full. (full.queue ≡ self.old.queue) × (full.polled ≡ self.old.offered)) }
    {
        let close = InboxEntry::new(self.alloc, true, Item::Close { moment });
        match push::<Polls, _, _, _, R>(&self.queue, rt, &mut self.pass, close) {
            Ok(()) => Ok(()),
            Err((_, full)) => Err(InboxFull::new(full)),
        }
    }
}

impl ClockEnd {
    /// Appends a message to the inbox. `OfferFault` returns it if the inbox was full at some time during the call;
    /// then nothing changed. Its `moment` is in microseconds, below 2^62. Doesn't allocate.
    pub fn offer<R: Wait>(&mut self, rt: &R, item: Item) -> Result<(), OfferFault>
        requires timely { moment_of (input_of item) < 2 ^ 62 }
        ensures ok { OnOk result (self.new ≡ producer self.old.queue self.old.capacity (self.old.offered ++ item ∷ [])) }
        ensures full { IfErr result (λ full. (full.item ≡ item) × (self.new ≡ self.old) × Held self.old.capacity (StoodAsTicked self.old.offered)) }
        ensures evidence { IfErr result (λ full. (full.evidence.queue ≡ self.old.queue) × (full.evidence.ticked ≡ self.old.offered)) }
    {
        let entry = InboxEntry::new(self.alloc, false, item);
        match push::<Ticks, _, _, _, R>(&self.queue, rt, &mut self.pass, entry) {
            Ok(()) => Ok(()),
            Err((back, full)) => Err(OfferFault {
                item: back.into_item(),
                evidence: InboxFull::new(full),
            }),
        }
    }

    /// Returns evidence that the inbox was full at some time during the call, if it was. Changes nothing. It only
    /// reads, so successive calls on several inboxes wait for memory in parallel, whereas each `offer` waits for the
    /// previous one.
    pub fn is_full(&mut self) -> Option<InboxFull>
        ensures same { self.new ≡ self.old }
        ensures full { IfSome result (λ _. Held self.old.capacity (StoodAsTicked self.old.offered)) }
        ensures evidence { IfSome result (λ full. (full.queue ≡ self.old.queue) × (full.ticked ≡ self.old.offered)) }
    {
        match find_full::<Ticks, _, _, _>(&self.queue, &mut self.pass) {
            Some(full) => Some(InboxFull::new(full)),
            None => None,
        }
    }
}

impl InboxReceiver {
    /// Removes and returns the oldest message. The error is evidence that the inbox was empty at some time during the
    /// call. Doesn't allocate.
    pub fn take<R: Wait>(&mut self, rt: &R) -> Result<InboxEntry, WasEmpty<InboxEntry, InboxView>>
        ensures took { MatchResult result
            (λ x. self.new ≡ consumer self.old.queue self.old.capacity (self.old.taken ++ x ∷ []))
            (λ _. (self.new ≡ self.old) × Held 0 (StoodAsTaken self.old.taken)) }
        ensures evidence { IfErr result
            (λ empty. (empty.requested.value.table_id ≡ self.old.queue) × (empty.requested.value.me.0.client.taken ≡ self.old.taken)) }
    {
        // Two loads show whether the inbox is empty. A pop copies a whole cell of the queue even if it finds none.
        if let Some(empty) = find_empty::<Takes, _, _, _>(&self.queue, &mut self.pass) {
            return Err(empty);
        }
        pop::<Takes, _, _, _, R>(&self.queue, rt, &mut self.pass)
    }

    /// Returns the number of messages remaining in the inbox, and consumes the end; the other two ends must be of the
    /// same inbox. The messages received, followed by the remaining ones, are what the two ends offered, each in
    /// order.
    pub fn settle<R: Wait>(self, rt: &R, ingress: Ingress, clock: ClockEnd) -> usize
        requires { (ingress.queue ≡ self.queue) × (clock.queue ≡ self.queue) }
        ensures { AreLeft result self.taken ingress clock }
    {
        let InboxReceiver { queue, mut pass } = self;
        let Ingress {
            queue: _,
            pass: polls,
            alloc: _,
        } = ingress;
        let ClockEnd {
            queue: _,
            pass: ticks,
            alloc: _,
        } = clock;
        queue.absorb::<Polling>(&mut pass, polls);
        queue.absorb::<Ticking>(&mut pass, ticks);
        queue.len_as::<ItemsLeft, R>(rt, &mut pass)
    }

    /// Allocates another handle of this end's queue.
    pub fn share(&self) -> Result<Arc<Inbox>, AllocError>
        ensures { IfOk result (λ q. (arc_value q).table.shared.table_id ≡ self.now.queue) }
    {
        Ok(Arc::try_clone(&self.queue)?)
    }
}

/// Opens the three ends of a new, empty inbox for at most `capacity` messages, 1 or more. Allocates all of them; the
/// error is a failed allocation.
pub fn open_inbox(
    alloc: Global,
    capacity: usize,
) -> Result<(Ingress, ClockEnd, InboxReceiver), AllocError>
    requires { 0 < capacity }
    ensures { IfOk result (λ r. AreNew capacity r.0 r.1 r.2) }
{
    let (queue, mut pass) = Inbox::ruled(alloc, capacity)?;
    let poller = queue.another::<Polling>(&mut pass);
    let clock = queue.another::<Ticking>(&mut pass);
    let ours = Arc::new(alloc, queue)?;
    let polls = Arc::try_clone(&ours)?;
    let ticks = Arc::try_clone(&ours)?;
    let ingress = Ingress {
        queue: polls,
        pass: poller,
        alloc,
    };
    let end = ClockEnd {
        queue: ticks,
        pass: clock,
        alloc,
    };
    let receiver = InboxReceiver { queue: ours, pass };
    Ok((ingress, end, receiver))
}
