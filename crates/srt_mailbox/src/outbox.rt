//! The two ends of an outbox: the route puts replies, the poller drains them.

ghost use Rattle.std.specs.Prelude.{◌≡◌, ◌<◌, ◌≤◌, List, [], ◌∷◌, ◌++◌, length, IfOk, OnOk, IfErr, IfSome};
ghost use Rattle.std.specs.Arc.{arc_value};
ghost use Rattle.crossbeam_queue.specs.Fifo.{Held};
ghost use Rattle.srt_route.specs.declared.replies.Reply.{Reply as TheReply};
ghost use Rattle.srt_mailbox.specs.Counts.{counted};
ghost use Rattle.srt_mailbox.specs.Ends.{pipe, drained};
ghost use Rattle.srt_mailbox.specs.Outbox.{StoodAsPut, StoodAsDrained, replies_in};

use crate::evidence::{OutboxEmpty, WasFull, find_empty, pop, push};
use crate::outbox_rule::{
    Draining, Drains, Outbox, OutboxPass, OutboxView, Parcel, Puts, RepliesLeft,
};
use crate::spares::{Boxes, Spent, open_boxes};
use srt_route::Reply;
use std::alloc::{AllocError, Global};
use std::marker::Model;
use std::mem;
use std::sync::{Arc, Wait};

/// The route's end of its outbox. Contracts see which outbox it is, its capacity, and the replies that were put.
#[derive(Drop)]
pub struct OutboxSender {
    queue: Arc<Outbox>,
    pass: OutboxPass,
}

impl Model for OutboxSender {
    ghost use Rattle.std.specs.Prelude.{◌≡◌, true};
    ghost use Rattle.std.specs.Arc.{arc_value};
    ghost use Rattle.crossbeam_queue.specs.Passes.{IsPassOf, ruled_capacity};
    ghost use Rattle.srt_mailbox.specs.Outbox.{replies_in};
    ghost use Rattle.srt_mailbox.specs.Ends.{Pipe, pipe};

    ghost Value = { Pipe };

    ghost view = { λ s. pipe s.pass.table_id (ruled_capacity (arc_value s.queue)) (replies_in s.pass.me.0.client.put) };

    ghost invariant = { λ s. IsPassOf (arc_value s.queue) s.pass × (s.pass.me.0.client.puts ≡ true) };
}

/// The end of a route's outbox from which replies are drained. Contracts see which outbox it is, its capacity, the
/// replies that were drained, and the last of them.
#[derive(Drop)]
pub struct Drain {
    queue: Arc<Outbox>,
    pass: OutboxPass,
    spent: Spent,
    hand: Box<Reply>,
    // the buffer that was passed with it
    buffer: Option<Vec<u8>>,
}

impl Model for Drain {
    ghost use Rattle.std.specs.Prelude.{◌≡◌, true, length};
    ghost use Rattle.std.specs.Arc.{arc_value};
    ghost use Rattle.crossbeam_queue.specs.Passes.{IsPassOf, ruled_capacity};
    ghost use Rattle.srt_mailbox.specs.Counts.{counted};
    ghost use Rattle.srt_mailbox.specs.Outbox.{replies_in};
    ghost use Rattle.srt_mailbox.specs.Ends.{Drained, drained};

    ghost Value = { Drained };

    ghost view = { λ s. drained s.pass.table_id (ruled_capacity (arc_value s.queue)) (replies_in s.pass.me.0.client.drained) s.hand.value };

    // As many boxes went back to the route as replies were drained.
    ghost invariant = { λ s. IsPassOf (arc_value s.queue) s.pass × (s.pass.me.0.client.drains ≡ true) ×
        (s.spent.given ≡ counted (length (replies_in s.pass.me.0.client.drained))) };
}

impl OutboxSender {
    /// Appends a reply to the outbox. The error returns it, with evidence that the outbox was full at some time during
    /// the call. Doesn't allocate.
    pub fn put<R: Wait>(
        &mut self,
        rt: &R,
        parcel: Parcel,
    ) -> Result<(), (Parcel, WasFull<Parcel, OutboxView>)>
        ensures ok { OnOk result (self.new ≡ pipe self.old.queue self.old.capacity (self.old.put ++ parcel.value ∷ [])) }
        ensures full { IfErr result (λ back. (back.0 ≡ parcel) × (self.new ≡ self.old) × Held self.old.capacity (StoodAsPut self.old.put)) }
        ensures evidence { IfErr result
            (λ back. (back.1.requested.value.table_id ≡ self.old.queue) × (replies_in back.1.requested.value.me.0.client.put ≡ self.old.put)) }
    {
        push::<Puts, _, _, _, R>(&self.queue, rt, &mut self.pass, parcel)
    }

    /// Returns the number of remaining replies and the number drained (saturated at 2^64 - 1), and consumes both ends;
    /// `drain` must be of the same outbox. The replies drained, followed by the remaining ones, are those that were
    /// put.
    pub fn settle<R: Wait>(self, rt: &R, drain: Drain) -> (usize, u64)
        requires { drain.queue ≡ self.queue }
        ensures left { (left : List TheReply) × (length left ≡ result.0) × (self.put ≡ drain.through ++ left) }
        ensures drained { result.1 ≡ counted (length drain.through) }
    {
        let OutboxSender { queue, mut pass } = self;
        let Drain {
            queue: _,
            pass: drains,
            spent,
            hand: _,
            buffer: _,
        } = drain;
        queue.absorb::<Draining>(&mut pass, drains);
        (queue.len_as::<RepliesLeft, R>(rt, &mut pass), spent.given)
    }

    /// Allocates another handle of this end's queue.
    pub fn share(&self) -> Result<Arc<Outbox>, AllocError>
        ensures { IfOk result (λ q. (arc_value q).table.shared.table_id ≡ self.now.queue) }
    {
        Ok(Arc::try_clone(&self.queue)?)
    }
}

impl Drain {
    /// Removes the oldest reply from the outbox; `reply` returns it. The error is evidence that the outbox was empty
    /// at some time during the call; then nothing changed. Doesn't allocate: the box of the previous reply returns to
    /// the route.
    #[inline(always)]
    pub fn take<R: Wait>(&mut self, rt: &R) -> Result<(), OutboxEmpty>
        ensures some { OnOk result (self.new ≡ drained self.old.queue self.old.capacity (self.old.through ++ self.new.hand ∷ []) self.new.hand) }
        ensures none { IfErr result (λ _. (self.new ≡ self.old) × Held 0 (StoodAsDrained self.old.through)) }
        ensures evidence { IfErr result (λ empty. (empty.queue ≡ self.old.queue) × (empty.through ≡ self.old.through)) }
    {
        match pop::<Drains, _, _, _, R>(&self.queue, rt, &mut self.pass) {
            Ok(parcel) => {
                let (reply, buffer) = parcel.into_parts();
                self.buffer = buffer;
                let empty = mem::replace(&mut self.hand, reply);
                self.spent.give(empty);
                Ok(())
            }
            Err(empty) => {
                self.spent.flush();
                Err(OutboxEmpty::new(empty))
            }
        }
    }

    /// Returns evidence that the outbox was empty at some time during the call, if it was. Changes nothing. It only
    /// reads, so successive calls on several outboxes wait for memory in parallel, whereas each `take` waits for the
    /// previous one.
    #[inline(always)]
    pub fn is_empty(&mut self) -> Option<OutboxEmpty>
        ensures same { self.new ≡ self.old }
        ensures empty { IfSome result (λ _. Held 0 (StoodAsDrained self.old.through)) }
        ensures evidence { IfSome result (λ empty. (empty.queue ≡ self.old.queue) × (empty.through ≡ self.old.through)) }
    {
        match find_empty::<Drains, _, _, _>(&self.queue, &mut self.pass) {
            Some(empty) => Some(OutboxEmpty::new(empty)),
            None => None,
        }
    }

    /// Returns the buffer of some datagram that the route has processed, if one was passed with the reply that `take`
    /// removed last. It has room for the body of any packet (`BUFFER_ROOM`), and its bytes are no longer used.
    #[inline(always)]
    pub fn take_buffer(&mut self) -> Option<Vec<u8>>
        ensures { self.new ≡ self.old }
    {
        self.buffer.take()
    }

    /// Returns the reply that `take` removed last, borrowed where the route wrote it: no reply is moved between
    /// writing and sending. Before the first one it is a blank reply, which must not be sent.
    #[inline(always)]
    pub fn reply(&self) -> &Reply
        ensures { result.now ≡ self.now.hand }
    {
        &self.hand
    }
}

/// Opens the two ends of a new, empty outbox for at most `capacity` replies (1 to 4096), and the empty boxes that
/// circulate between them. Allocates the queue and more than `capacity` boxes (`open_boxes`); the error is a failed
/// allocation.
pub fn open_outbox(
    alloc: Global,
    capacity: usize,
) -> Result<(OutboxSender, Drain, Boxes), AllocError>
    requires { (0 < capacity) × (capacity ≤ 4096) }
    ensures { IfOk result (λ r. (r.0 ≡ pipe r.0.queue capacity []) × (r.1 ≡ drained r.0.queue capacity [] r.1.hand)) }
{
    let (queue, mut pass) = Outbox::ruled(alloc, capacity)?;
    let drains = queue.another::<Draining>(&mut pass);
    let ours = Arc::new(alloc, queue)?;
    let theirs = Arc::try_clone(&ours)?;
    let (boxes, spent) = open_boxes(alloc, capacity)?;
    let hand = Box::new(alloc, Reply::blank())?;
    let sender = OutboxSender { queue: ours, pass };
    let drain = Drain {
        queue: theirs,
        pass: drains,
        spent,
        hand,
        buffer: None,
    };
    Ok((sender, drain, boxes))
}
