//! Replies that wait to be sent, spare boxes, and the boxes into which an event writes.

ghost use Rattle.std.specs.Prelude.{◌≡◌, ◌↔◌, ◌+◌, ◌<◌, ◌≤◌, ◌++◌, ◌∷◌, [], length, true, false, IfOk};
ghost use Rattle.std.specs.Vec.{vec_capacity};
ghost use Rattle.std.specs.VecDeque.{deque_capacity};

use crate::replies::{Reply, blank_boxes};
use srt_types::Peer;
use std::alloc::{AllocError, Global};
use std::collections::VecDeque;
use std::mem;

/// Waiting replies, the oldest first, each in a box, and spare boxes. The number of boxes changes only in `trim`: a box
/// that is queued or fetched is exchanged for another, so that no reply is copied.
#[derive(Drop)]
pub struct ReplyQueue {
    replies: VecDeque<Box<Reply>>,
    spare: Vec<Box<Reply>>,
    ghost waits: { length replies.items + length spare.items ≤ deque_capacity replies },
    ghost rests: { length replies.items + length spare.items ≤ vec_capacity spare },
}

/// Scratch boxes, into which an event writes its packets. One that is queued is exchanged for a spare box.
#[derive(Drop)]
pub struct ScratchBoxes {
    /// For an answer, for SHUTDOWNs, and for a subscriber's packets.
    pub reply: Box<Reply>,
    /// For a publisher's ACK.
    pub ack: Box<Reply>,
    /// For a publisher's NAK.
    pub nak: Box<Reply>,
    /// For a publisher's KEEPALIVE.
    pub keep_alive: Box<Reply>,
}

impl ScratchBoxes {
    /// Allocates four blank boxes.
    pub fn open(alloc: Global) -> Result<ScratchBoxes, AllocError> {
        Ok(ScratchBoxes {
            reply: Box::new(alloc, Reply::blank())?,
            ack: Box::new(alloc, Reply::blank())?,
            nak: Box::new(alloc, Reply::blank())?,
            keep_alive: Box::new(alloc, Reply::blank())?,
        })
    }
}

impl ReplyQueue {
    ghost use Rattle.srt_types.specs.Given.{given};
    ghost use Rattle.srt_packet.specs.Encoded.{bytes_of};
    ghost use Rattle.srt_pub.specs.Calls.{texts, listed};
    ghost use Rattle.srt_route.specs.Buffers.{datagrams_to};
    ghost use Rattle.srt_route.specs.inside.Reports.{Queues};
    ghost use Rattle.srt_route.specs.Tables.{written_of};
    ghost use Rattle.srt_route.specs.Waits.{IsTrimmed, replies_of, places_of};

    /// Allocates an empty queue with a capacity of `places` replies. No other call allocates.
    pub fn open(alloc: Global, places: usize) -> Result<ReplyQueue, AllocError>
        ensures empty { IfOk result (λ w. replies_of w ≡ []) }
        ensures room { IfOk result (λ w. places_of w ≡ places) }
    {
        let replies = VecDeque::with_capacity(alloc, places)?;
        let spare = blank_boxes(alloc, places)?;
        Ok(ReplyQueue { replies, spare })
    }

    /// Queues the reply in this box after the others, and replaces the box with a spare one. Does nothing if there is
    /// no spare box.
    pub fn put(&mut self, place: &mut Box<Reply>)
        ensures places { places_of self.new ≡ places_of self.old }
        ensures put { length (replies_of self.old) < places_of self.old → replies_of self.new ≡ replies_of self.old ++ (place.old.value ∷ []) }
    {
        if let Some(spare) = self.spare.pop() {
            let reply = mem::replace(place, spare);
            let _ = self.replies.push_back(reply);
        }
    }

    /// Queues the reply in this box if `some`.
    pub fn put_if(&mut self, hand: &mut Box<Reply>, some: bool)
        ensures { Queues self.old self.new (written_of (given some hand.old.value)) }
    {
        if some {
            self.put(hand);
        }
    }

    /// Queues the packet in this box as a reply to this peer.
    pub fn put_to(&mut self, peer: Peer, hand: &mut Box<Reply>)
        ensures { Queues self.old self.new (datagrams_to peer (bytes_of hand.old.value.packet ∷ [])) }
    {
        hand.peer = peer;
        self.put(hand);
    }

    /// Queues the packet in this box as a reply to this peer if `some`.
    pub fn put_to_if(&mut self, peer: Peer, hand: &mut Box<Reply>, some: bool)
        ensures { Queues self.old self.new (datagrams_to peer (texts (listed (given some hand.old.value.packet)))) }
    {
        if some {
            self.put_to(peer, hand);
        }
    }

    /// Exchanges this box for that of the oldest waiting reply, and keeps it as a spare one. Returns false if none
    /// waits.
    pub fn next(&mut self, place: &mut Box<Reply>) -> bool
        ensures places { places_of self.new ≡ places_of self.old }
        ensures first { result ≡ true → replies_of self.old ≡ place.new.value ∷ replies_of self.new }
        ensures none { result ≡ false → (replies_of self.old ≡ []) × (self.new ≡ self.old) × (place.new ≡ place.old) }
    {
        if self.replies.is_empty() {
            return false;
        }
        if let Some(reply) = self.replies.pop_front() {
            let spare = mem::replace(place, reply);
            let _ = self.spare.push(spare);
        }
        true
    }

    /// The same, but gives back the spare boxes, and the memory of the queue itself with the last reply.
    pub fn next_and_trim(&mut self, place: &mut Box<Reply>) -> bool
        ensures trimmed { IsTrimmed self.old → IsTrimmed self.new }
        ensures first { result ≡ true → replies_of self.old ≡ place.new.value ∷ replies_of self.new }
        ensures none { result ≡ false → (replies_of self.old ≡ []) × (self.new ≡ self.old) × (place.new ≡ place.old) }
    {
        if !self.next(place) {
            return false;
        }
        self.trim();
        true
    }

    /// Gives back the spare boxes, and the memory of the queue itself if no reply waits.
    pub fn trim(&mut self)
        ensures replies { replies_of self.new ≡ replies_of self.old }
        ensures trimmed { IsTrimmed self.new }
    {
        self.spare.clear();
        if self.replies.is_empty() {
            self.replies.shrink_to_fit();
            self.spare.shrink_to_fit();
        }
    }

    /// Returns the number of waiting replies.
    pub fn len(&self) -> usize
        ensures { result ≡ length (replies_of self.now) }
    {
        self.replies.len()
    }
}
