//! Handshakes of callers and of listeners (section 3.2.1).

ghost use Rattle.std.specs.Prelude.{◌≡◌, [], ◌∷◌, ◌++◌};
ghost use Rattle.std.specs.List.{flat_map};
ghost use Rattle.srt_samples.specs.Samples.{bytes_of, packet, handshake_bytes, block_bytes, induction_words, conclusion_words, words};
ghost use Rattle.srt_samples.specs.Samples.{answer_words, refusal_words};

use crate::samples::{Sample, handshake_of};

/// The fields of a caller that both of its handshakes have.
#[derive(Clone, Copy)]
pub struct Caller {
    /// The socket ID.
    pub id: u32,
    /// The sequence number of the first data packet.
    pub initial: u32,
    /// The maximum transmission unit, in bytes, including all headers.
    pub mtu: u32,
    /// The maximum flow window size, in packets.
    pub window: u32,
    /// The cookie that it returns in its conclusion.
    pub cookie: u32,
}

/// The handshake type (section 3.2.1, table 4).
#[derive(Clone, Copy)]
pub enum Phase {
    /// The first exchange.
    Induction,
    /// The second exchange.
    Conclusion,
    /// The second exchange, refused with this code.
    Refused(u32),
}

/// The words of a handshake before its extension blocks (section 3.2.1).
#[derive(Clone, Copy)]
pub struct Handshake {
    /// 4 in a caller's induction, else 5.
    pub version: u32,
    /// The encryption field in the upper half, the extension field in the lower one.
    pub fields: u32,
    /// The sequence number of the first data packet.
    pub initial: u32,
    /// The maximum transmission unit, in bytes, including all headers.
    pub mtu: u32,
    /// The maximum flow window size, in packets.
    pub window: u32,
    /// The handshake type.
    pub phase: Phase,
    /// The socket ID of the sender.
    pub id: u32,
    /// The cookie.
    pub cookie: u32,
    /// The first word of the peer's IP address; the others are 0.
    pub address: u32,
}

/// The contents of HSREQ and HSRSP (section 3.2.1.1).
#[derive(Clone, Copy)]
pub struct Offer {
    /// The version of SRT.
    pub version: u32,
    /// The flags.
    pub flags: u32,
    /// The receiver TSBPD delay, in milliseconds.
    pub receiver_ms: u16,
    /// The sender TSBPD delay, in milliseconds.
    pub sender_ms: u16,
}

/// An extension block (section 3.2.1).
#[derive(Clone, Copy)]
pub enum Block<'a> {
    /// HSREQ.
    Request(Offer),
    /// HSRSP.
    Response(Offer),
    /// A Stream ID (section 3.2.1.3).
    StreamId(&'a str),
    /// A congestion control type.
    Congestion(&'a str),
}

/// The HSREQ of a live caller of SRT 1.5.0 with delays of 120 ms. Its flags are all but STREAM (section 3.2.1.1.1).
pub const HSREQ: Block<'static> = Block::Request(Offer {
    version: 0x1_0500,
    flags: 0xbf,
    receiver_ms: 120,
    sender_ms: 120,
});

/// The same with the flag STREAM.
pub const HSREQ_WITH_STREAM: Block<'static> = Block::Request(Offer {
    version: 0x1_0500,
    flags: 0xff,
    receiver_ms: 120,
    sender_ms: 120,
});

/// The HSRSP of a listener of SRT 1.5.0 in live mode, with delays of 120 ms.
pub const HSRSP: Block<'static> = Block::Response(Offer {
    version: 0x1_0500,
    flags: 0x3f,
    receiver_ms: 120,
    sender_ms: 120,
});

/// Returns a handshake with these words and blocks.
pub fn handshake_packet<'a>(handshake: Handshake, blocks: &'a [Block<'a>]) -> Sample<'a>
    ensures { bytes_of result ≡ packet 0x8000_0000 0 0 0 (handshake_bytes handshake ++ flat_map block_bytes blocks.now) [] }
{
    handshake_of(handshake, blocks)
}

/// Returns a caller's induction, from 127.0.0.1 (section 4.3.1.1).
pub fn induction<'a>(caller: Caller) -> Sample<'a>
    ensures { bytes_of result ≡ packet 0x8000_0000 0 0 0 (words (induction_words caller) ++ []) [] }
{
    handshake_packet(
        Handshake {
            version: 4,
            fields: 2,
            initial: caller.initial,
            mtu: caller.mtu,
            window: caller.window,
            phase: Phase::Induction,
            id: caller.id,
            cookie: 0,
            address: 0x0100_007f,
        },
        &[],
    )
}

/// Returns a caller's conclusion, from 127.0.0.1, with these blocks; its extension field has the flags HSREQ and
/// CONFIG, whatever the blocks are (section 4.3.1.2).
pub fn conclusion<'a>(caller: Caller, blocks: &'a [Block<'a>]) -> Sample<'a>
    ensures { bytes_of result ≡ packet 0x8000_0000 0 0 0 (words (conclusion_words caller) ++ flat_map block_bytes blocks.now) [] }
{
    handshake_packet(
        Handshake {
            version: 5,
            fields: 5,
            initial: caller.initial,
            mtu: caller.mtu,
            window: caller.window,
            phase: Phase::Conclusion,
            id: caller.id,
            cookie: caller.cookie,
            address: 0x0100_007f,
        },
        blocks,
    )
}

/// Returns a listener's answer to a conclusion, with these blocks: the caller's initial number, the listener's window in
/// packets, and the session's socket ID. Its extension field has the flag HSREQ, whatever the blocks are (section 4.3.1.2).
pub fn conclusion_answer<'a>(
    initial: u32,
    window: u32,
    session: u32,
    blocks: &'a [Block<'a>],
) -> Sample<'a>
    ensures { bytes_of result ≡ packet 0x8000_0000 0 0 0 (words (answer_words initial window session) ++ flat_map block_bytes blocks.now) [] }
{
    handshake_packet(
        Handshake {
            version: 5,
            fields: 1,
            initial,
            mtu: 1500,
            window,
            phase: Phase::Conclusion,
            id: session,
            cookie: 0,
            address: 0,
        },
        blocks,
    )
}

/// Returns a listener's refusal of a conclusion with this initial number, with this code (section 4.3).
pub fn refusal<'a>(initial: u32, code: u32) -> Sample<'a>
    ensures { bytes_of result ≡ packet 0x8000_0000 0 0 0 (words (refusal_words initial code) ++ []) [] }
{
    handshake_packet(
        Handshake {
            version: 5,
            fields: 0,
            initial,
            mtu: 1500,
            window: 8192,
            phase: Phase::Refused(code),
            id: 1,
            cookie: 0,
            address: 0,
        },
        &[],
    )
}
