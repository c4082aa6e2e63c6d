//! The content of a packet that brings a key material message (draft-sharabayko-srt-01, section 3.2.2).

/// What a packet with a key material message is.
#[derive(Clone, Copy, PartialEq, Eq)]
pub enum KeyPacketKind {
    /// A KMREQ, subtype 3: the sender of data tells its keys.
    Request,
    /// A KMRSP, subtype 4: the receiver repeats the message, or says in one word why it can't use it.
    Response,
}

/// A packet that brings a key material message: a user-defined control packet, of type 0x7fff. It borrows the message.
#[derive(Clone, Copy)]
pub struct KeyPacketRef<'a> {
    /// The timestamp, in microseconds modulo 2^32.
    pub stamp: u32,
    /// The socket ID of the receiver.
    pub dest: u32,
    /// Whether it is a KMREQ or a KMRSP.
    pub kind: KeyPacketKind,
    /// All bytes after the header, unchecked.
    pub info: &'a [u8],
}
