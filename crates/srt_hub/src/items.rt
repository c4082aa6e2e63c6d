//! The items of a route's inbox.

ghost use Rattle.std.specs.Prelude.{◌≡◌, ◌^◌, ◌<◌, ◌≤◌, length, IfOk};
ghost use Rattle.srt_types.specs.Items.{input_of, moment_of, Received};

use crate::answers::OutOfMemory;
use srt_types::{Item, Peer};
use std::alloc::Global;

/// An item of the inbox.
#[derive(Drop)]
pub struct Timely {
    /// The item; its time is below 2^62 microseconds.
    pub item: Item,
    pub ghost timely: { moment_of (input_of item) < 2 ^ 62 },
}

/// Makes an item of a datagram, with a copy of all bytes after the first 16. Allocates that copy; the only error is
/// that the allocation fails.
pub fn copied(alloc: Global, peer: Peer, bytes: &[u8], moment: u64) -> Result<Timely, OutOfMemory>
    requires header { 16 ≤ length bytes.now }
    requires timely { moment < 2 ^ 62 }
    ensures { IfOk result (λ timely. input_of timely.item ≡ Received (record { peer = peer; bytes = bytes.now }) moment) }
{
    let mut head = [0; 16];
    head.copy_from_slice(&bytes[..16]);
    let Ok(body) = Vec::from_slice(alloc, &bytes[16..]) else {
        return Err(OutOfMemory);
    };
    Ok(Timely {
        item: Item::Datagram {
            peer,
            moment,
            head,
            body,
        },
    })
}
