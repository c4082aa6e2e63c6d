//! The poller's ends of a route's queues.

ghost use Rattle.std.specs.Prelude.{◌≡◌, ◌<◌, ◌≤◌, ◌^◌, drop, length};

use crate::buffers::Buffers;
use crate::context::RoundContext;
use crate::memory::MemoryRefused;
use srt_mailbox::{Drain, InboxFull, Ingress};
use srt_types::Peer;
use std::sync::Wait;

/// The poller's ends of the queues of one route.
#[derive(Drop)]
pub struct Ends {
    /// The inbox, to which the route's datagrams are offered.
    pub ingress: Ingress,
    /// The outbox, from which the route's replies are taken.
    pub drain: Drain,
}

/// The outcome of an offer to a route.
#[derive(Drop)]
pub(crate) enum Offered {
    /// The inbox accepted it.
    Accepted,
    /// The inbox was full, by this evidence; the datagram is lost.
    Full(InboxFull),
    /// The allocation of its copy was refused, by this evidence; the datagram is lost.
    Refused(MemoryRefused),
}

impl Ends {
    ghost use Rattle.srt_poller.specs.Devices.{arrival};
    ghost use Rattle.srt_poller.specs.Pollers.{OfferedAs};

    /// Offers a copy of a datagram of 16 bytes or more to the route. Its timestamp is in microseconds. The bytes after the
    /// first 16 are copied into a body that was returned, or into a new one, which is all that a poller allocates.
    #[inline(always)]
    pub(crate) fn offer<R: Wait, G>(
        &mut self,
        context: &RoundContext<R, G>,
        buffers: &mut Buffers,
        peer: Peer,
        bytes: &[u8],
        moment: u64,
    ) -> Offered
        requires header { 16 ≤ length bytes.now }
        requires timely { moment < 2 ^ 62 }
        ensures offered { OfferedAs result (arrival peer bytes.now moment) buffers.old (drop 16 bytes.now) self.old.ingress self.new.ingress }
        ensures drain { self.new.drain ≡ self.old.drain }
    {
        let mut head = [0; 16];
        head.copy_from_slice(&bytes[..16]);
        let body = match buffers.copy_of(context.alloc, &bytes[16..]) {
            Ok(body) => body,
            Err(refused) => return Offered::Refused(refused),
        };
        match self
            .ingress
            .offer_datagram(context.rt, peer, moment, head, body)
        {
            Ok(()) => Offered::Accepted,
            Err(full) => Offered::Full(full),
        }
    }
}
