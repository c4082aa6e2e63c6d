//! A route with its queues.

ghost use Rattle.std.specs.Prelude.{◌≡◌, ℕ, ◌+◌, ◌<◌, ◌≤◌, true, IfOk, IfErr, IfSome, IfNone, map, take, drop, length};
ghost use Rattle.std.specs.Vec.{vec_capacity};
ghost use Rattle.std.specs.VecDeque.{deque_capacity};
ghost use Rattle.srt_packet.specs.Held.{IsPacketOrNothing};

use crate::items::Timely;
use crate::parts::RouteStep;
use srt_route::{Reply, blank_boxes};
use srt_types::protocol_limits::MAX_DATAGRAM;
use srt_types::{Entry, OpenFault, Peer, Turned};
use std::alloc::Global;
use std::collections::VecDeque;

/// A route with its queues, which are allocated for their capacities. Replies are boxed: moving one exchanges boxes.
/// The number of spare boxes is the free space of the outbox.
#[derive(Drop)]
pub struct Lane<R: RouteStep> {
    route: R,
    inbox: VecDeque<Timely>,
    outbox: VecDeque<Box<Reply>>,
    spare: Vec<Box<Reply>>,
    inbox_room: usize,
    outbox_room: usize,
    ghost inbox_fits: { inbox_room ≤ deque_capacity inbox },
    ghost outbox_fits: { outbox_room ≤ deque_capacity outbox },
    ghost spare_fits: { outbox_room ≤ vec_capacity spare },
    ghost boxes: { length outbox.items + length spare.items ≡ outbox_room },
}

/// A lane as a lane of the model. Ghost members only.
pub trait Standing {
    ghost use Rattle.srt_types.specs.Terms.{Terms};
    ghost use Rattle.srt_hub.specs.World.{Lane as TheLane};

    /// With these terms and this index the lane is this lane of the model.
    ghost is: { Self → Terms → (index : ℕ) → TheLane → Type 0 };
}

impl<R: RouteStep> Standing for Lane<R> {
    ghost use Rattle.srt_hub.specs.inside.Queued.{item_in, reply_in};
    ghost use Rattle.srt_hub.specs.inside.Stands.{IsLane};

    ghost is = { λ lane e r m. IsLane e (λ items. R.stands lane.route e r items) (R.waiting lane.route) (map item_in lane.inbox.items)
        (map reply_in lane.outbox.items) lane.inbox_room lane.outbox_room m };
}

impl<R: RouteStep> Lane<R> {
    ghost use Rattle.srt_hub.specs.inside.Queued.{item_in};
    ghost use Rattle.srt_types.specs.Entries.{is_name, in_limits};
    ghost use Rattle.srt_types.specs.Terms.{terms_of};
    ghost use Rattle.srt_hub.specs.World.{empty, offered, has_room, turned, turn, sent_from};
    ghost use Rattle.srt_hub.specs.Calls.{LaneBecomes, LaneAnswers, datagram_at, first_out};

    /// Opens a route without items, with empty queues. Allocates the route, both queues and `outbox` boxes. The only
    /// error is `OutOfMemory`.
    pub fn open(alloc: Global, entry: &Entry, index: usize) -> Result<Lane<R>, OpenFault>
        requires name { is_name (terms_of entry.now).name ≡ true }
        requires limits { in_limits (terms_of entry.now) ≡ true }
        requires index { index < 511 }
        ensures empty { IfOk result (λ lane. ⟦<Lane<R> as Standing>⟧.is lane (terms_of entry.now) index empty) }
        ensures memory { IfErr result (λ fault. fault ≡ OpenFault.OutOfMemory) }
    {
        let route = R::open(alloc, entry, index)?;
        let inbox_room = entry.inbox as usize;
        let outbox_room = entry.outbox as usize;
        let Ok(inbox) = VecDeque::with_capacity(alloc, inbox_room) else {
            return Err(OpenFault::OutOfMemory);
        };
        let Ok(outbox) = VecDeque::with_capacity(alloc, outbox_room) else {
            return Err(OpenFault::OutOfMemory);
        };
        let Ok(spare) = blank_boxes(alloc, outbox_room) else {
            return Err(OpenFault::OutOfMemory);
        };
        Ok(Lane {
            route,
            inbox,
            outbox,
            spare,
            inbox_room,
            outbox_room,
        })
    }

    /// Appends an item to the inbox. Returns false, and changes nothing, if the inbox is full. O(1). Doesn't allocate.
    pub fn offer(&mut self, item: Timely) -> bool
        ensures stands { LaneBecomes ⟦<Lane<R> as Standing>⟧.is self.old self.new (λ e r m. offered e (item_in item) m) }
        ensures answer { LaneAnswers ⟦<Lane<R> as Standing>⟧.is self.old has_room result }
    {
        if self.inbox.len() >= self.inbox_room {
            return false;
        }
        self.inbox.push_back(item).is_ok()
    }

    /// Moves the oldest waiting reply to the outbox, if there is one; otherwise processes the oldest item of the inbox.
    /// `Blocked` if the outbox is full, `Idle` if there is nothing to do. Doesn't allocate.
    pub fn turn(&mut self) -> Turned
        ensures stands { LaneBecomes ⟦<Lane<R> as Standing>⟧.is self.old self.new (turned R.reply) }
        ensures answer { LaneAnswers ⟦<Lane<R> as Standing>⟧.is self.old turn result }
    {
        if self.route.waits() {
            let Some(mut place) = self.spare.pop() else {
                return Turned::Blocked;
            };
            self.route.next_reply(&mut place);
            let _ = self.outbox.push_back(place);
            return Turned::Moved;
        }
        let Some(timely) = self.inbox.pop_front() else {
            return Turned::Idle;
        };
        self.route.step(timely.item);
        Turned::Applied
    }

    /// Removes the oldest reply from the outbox and writes its packet to the front of `out`. Returns its receiver and
    /// its length in bytes; None if the outbox is empty.
    pub fn send(&mut self, out: &mut [u8; MAX_DATAGRAM]) -> Option<(Peer, usize)>
        ensures stands { LaneBecomes ⟦<Lane<R> as Standing>⟧.is self.old self.new (λ e r m. sent_from m) }
        ensures answer { LaneAnswers ⟦<Lane<R> as Standing>⟧.is self.old first_out (datagram_at out.new result) }
        ensures within { IfSome result (λ sent. sent.1 ≤ 1472) }
        ensures kept { IfSome result (λ sent. drop sent.1 out.new ≡ drop sent.1 out.old) }
        ensures packet { IfSome result (λ sent. IsPacketOrNothing (take sent.1 out.new)) }
        ensures none { IfNone result (out.new ≡ out.old) }
    {
        let reply = self.outbox.pop_front()?;
        let peer = reply.peer;
        let len = reply.packet.copy_to(out);
        let _ = self.spare.push(reply);
        Some((peer, len))
    }
}
