//! The packets that a route sends, and boxes for them.

ghost use Rattle.std.specs.Prelude.{◌≡◌, ◌≤◌, [], length, IfOk};
ghost use Rattle.std.specs.Vec.{vec_capacity};
ghost use Rattle.srt_packet.specs.Encoded.{bytes_of};

use srt_packet::EncodedPacket;
use srt_types::Peer;
use std::alloc::{AllocError, Global};

/// A packet that a route sends, with its receiver.
#[derive(Drop)]
pub struct Reply {
    /// The address to which it is sent.
    pub peer: Peer,
    /// The packet, encoded in the place from which it is sent.
    pub packet: EncodedPacket,
}

impl Reply {
    /// Returns a blank reply, to be overwritten: no bytes, to no address.
    pub fn blank() -> Reply
        ensures { bytes_of result.packet ≡ [] }
    {
        Reply {
            peer: Peer {
                ip: [0; 16],
                port: 0,
            },
            packet: EncodedPacket::new(),
        }
    }
}

/// Allocates `count` boxes with blank replies, in a vector with capacity for all of them. An error keeps none of them.
pub fn blank_boxes(alloc: Global, count: usize) -> Result<Vec<Box<Reply>>, AllocError>
    ensures count { IfOk result (λ boxes. length boxes.items ≡ count) }
    ensures room { IfOk result (λ boxes. count ≤ vec_capacity boxes) }
{
    let mut boxes = Vec::with_capacity(alloc, count)?;
    while boxes.len() < count {
        boxes.push(Box::new(alloc, Reply::blank())?)?;
    }
    Ok(boxes)
}
