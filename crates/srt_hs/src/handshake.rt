//! The content of a handshake (draft-sharabayko-srt-01, section 3.2.1).

ghost use Rattle.std.specs.Prelude.{◌≡◌, ◌%◌, ◌<◌, ◌≤◌, length};

use arrayvec::ArrayVec;

/// Why bytes are no handshake. Of several faults, the first from the left is returned. All except `Short` are faults of
/// extension blocks, so only a conclusion can have them.
#[derive(Clone, Copy, Debug, PartialEq, Eq)]
pub enum HsFault {
    /// Fewer than 48 bytes.
    Short,
    /// 1 to 3 bytes remain after the last extension block, or a block is longer than the remaining bytes.
    TruncatedExtension,
    /// An HSREQ block of other than 3 words, a Stream ID of more than 128, or a CONGESTION block of 0 or more than 4.
    BadLength,
    /// A second HSREQ, Stream ID or CONGESTION block, of a valid length.
    Repeated,
}

/// The handshake type (section 3.2.1).
#[derive(Clone, Copy, Debug, PartialEq, Eq)]
pub enum HsKind {
    /// 1, INDUCTION: the caller requests a cookie.
    Induction,
    /// 0, WAVEHAND: only for rendezvous.
    WaveHand,
    /// 0xffffffff, CONCLUSION: the caller returns the cookie, with its extension blocks.
    Conclusion,
    /// 0xfffffffe, AGREEMENT: only for rendezvous.
    Agreement,
    /// 0xfffffffd, DONE.
    Done,
    /// Any other number: the reason for a refusal.
    Refusal(u32),
}

/// The contents of an HSREQ block, unchecked (section 3.2.1.1).
#[derive(Clone, Copy, Debug, PartialEq, Eq)]
pub struct HsReq {
    /// The caller's version of SRT: 0x010500 is 1.5.0.
    pub version: u32,
    /// The SRT flags, any value of 32 bits (section 3.2.1.1.1).
    pub flags: u32,
    /// The caller's receiver TSBPD delay, in milliseconds.
    pub receiver_ms: u16,
    /// The caller's sender TSBPD delay, in milliseconds.
    pub sender_ms: u16,
}

impl HsReq {
    ghost use Rattle.srt_hs.specs.Grammar.{has_periodic_nak};

    /// Whether the flags have PERIODICNAK, 0x10: the caller sends periodic NAKs (section 3.2.1.1.1). Other flags aren't
    /// regarded.
    pub fn has_periodic_nak(&self) -> bool
        ensures { result ≡ has_periodic_nak self.now.flags }
    {
        (self.flags >> 4) & 1 == 1
    }
}

/// The contents of a Stream ID block: 0 to 128 words (section 3.2.1.3).
#[derive(Clone, Copy, Debug)]
pub struct StreamIdRef<'a> {
    /// The received bytes, 0 to 512: the text in little-endian words, padded with zeros.
    pub contents: &'a [u8],
    pub ghost words: { length contents.now % 4 ≡ 0 },
    pub ghost most: { length contents.now ≤ 512 },
}

/// The contents of a CONGESTION block: one to four words.
#[derive(Clone, Copy, Debug)]
pub struct CongestionRef<'a> {
    /// The received bytes: 4, 8, 12 or 16.
    pub contents: &'a [u8],
    pub ghost words: { length contents.now % 4 ≡ 0 },
    pub ghost some: { 0 < length contents.now },
    pub ghost most: { length contents.now ≤ 16 },
}

/// A copy of the words of a CONGESTION block: one to four. [`congestion`](crate::congestion) returns it.
#[derive(Debug, Drop)]
pub struct CongestionText {
    /// The first word.
    pub first: u32,
    /// The words after it: at most three.
    pub others: ArrayVec<u32, 3>,
}

/// The extension blocks of a conclusion (section 3.2.1). Blocks of other types are ignored.
#[derive(Clone, Copy, Debug)]
pub struct BlocksRef<'a> {
    /// The HSREQ block (type 1), if there is one.
    pub hsreq: Option<HsReq>,
    /// The Stream ID block (type 5), if there is one. [`stream_id`](crate::stream_id) reads it.
    pub stream_id: Option<StreamIdRef<'a>>,
    /// The CONGESTION block (type 6), if there is one. [`congestion`](crate::congestion) reads it.
    pub congestion: Option<CongestionRef<'a>>,
    /// Whether there is a KMREQ block (type 3): the caller requests encryption.
    pub has_kmreq: bool,
    /// Whether there is a FILTER block (type 7): the caller requests a packet filter, such as FEC.
    pub has_filter: bool,
    /// Whether there is a GROUP block (type 8): the caller requests a connection group.
    pub has_group: bool,
}

/// A decoded handshake. It borrows its bytes. Only the extension blocks were checked: all other fields can have any
/// value.
#[derive(Clone, Copy, Debug)]
pub struct HsRef<'a> {
    /// The version of the handshake: 4 in a caller's induction, 5 in its conclusion.
    pub version: u32,
    /// The encryption field, unchecked.
    pub encryption: u16,
    /// The extension field, unchecked.
    pub extension: u16,
    /// The initial packet sequence number, as received. If its top bit is set, it is no sequence number.
    pub initial: u32,
    /// The maximum transmission unit: the maximum size of a packet, in bytes, including the headers of IP and UDP.
    pub mtu: u32,
    /// The maximum flow window size: the maximum number of packets in flight.
    pub window: u32,
    /// The handshake type.
    pub kind: HsKind,
    /// The caller's socket ID.
    pub id: u32,
    /// The cookie; 0 in a caller's induction.
    pub cookie: u32,
    /// The extension blocks; none unless it is a conclusion.
    pub blocks: BlocksRef<'a>,
}
