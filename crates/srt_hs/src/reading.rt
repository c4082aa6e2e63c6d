//! Handshakes decoded from borrowed bytes (draft-sharabayko-srt-01, section 3.2.1).

ghost use Rattle.std.specs.Prelude.{◌≡◌, ℕ, ◌+◌, ◌*◌, ◌%◌, ◌<◌, ◌≤◌, ◌++◌, length, take, IfOk, IfErr, IfSome, IsOkAnd, option_map, Ok};
ghost use Rattle.srt_hs.specs.Grammar.{Handshake, Spells, HasFault, half_at, kind_of, after_block};
ghost use Rattle.srt_hs.specs.Reading.{with_hsreq as hsreq_added, with_stream_id as stream_id_added, with_congestion as congestion_added};
ghost use Rattle.srt_hs.specs.Reading.{with_block as block_added, with_first as first_added, blocks_in, extension_in, handshake_in};
ghost use Rattle.srt_hs.specs.View.{blocks_of, first_of, handshake_of, seen, seen_blocks};

use crate::{BlocksRef, CongestionRef, HsFault, HsKind, HsRef, HsReq, StreamIdRef};
use srt_types::protocol_limits::MAX_STREAM_ID;
use srt_types::read_word;

/// Returns the 16-bit number that the two bytes at the offset `at` encode, in network byte order.
pub(crate) fn read_half(bytes: &[u8], at: usize) -> u16
    requires { at + 2 ≤ length bytes.now }
    ensures { result ≡ half_at bytes.now at }
{
    u16::from_be_bytes([bytes[at], bytes[at + 1]])
}

fn named(number: u32) -> HsKind
    ensures { result ≡ kind_of number }
{
    match number {
        0 => HsKind::WaveHand,
        1 => HsKind::Induction,
        0xffff_ffff => HsKind::Conclusion,
        0xffff_fffe => HsKind::Agreement,
        0xffff_fffd => HsKind::Done,
        _ => HsKind::Refusal(number),
    }
}

fn with_hsreq<'a>(before: BlocksRef<'a>, contents: &'a [u8]) -> Result<BlocksRef<'a>, HsFault>
    ensures { seen_blocks result ≡ hsreq_added (blocks_of before.entry) contents.now }
{
    if contents.len() != 12 {
        return Err(HsFault::BadLength);
    }
    if before.hsreq.is_some() {
        return Err(HsFault::Repeated);
    }
    let hsreq = HsReq {
        version: read_word(contents, 0),
        flags: read_word(contents, 4),
        receiver_ms: read_half(contents, 8),
        sender_ms: read_half(contents, 10),
    };
    Ok(BlocksRef {
        hsreq: Some(hsreq),
        ..before
    })
}

fn with_stream_id<'a>(before: BlocksRef<'a>, contents: &'a [u8]) -> Result<BlocksRef<'a>, HsFault>
    requires { length contents.now % 4 ≡ 0 }
    ensures { seen_blocks result ≡ stream_id_added (blocks_of before.entry) contents.now }
{
    if contents.len() > MAX_STREAM_ID {
        return Err(HsFault::BadLength);
    }
    if before.stream_id.is_some() {
        return Err(HsFault::Repeated);
    }
    Ok(BlocksRef {
        stream_id: Some(StreamIdRef { contents }),
        ..before
    })
}

fn with_congestion<'a>(before: BlocksRef<'a>, contents: &'a [u8]) -> Result<BlocksRef<'a>, HsFault>
    requires { length contents.now % 4 ≡ 0 }
    ensures { seen_blocks result ≡ congestion_added (blocks_of before.entry) contents.now }
{
    if contents.is_empty() || contents.len() > 16 {
        return Err(HsFault::BadLength);
    }
    if before.congestion.is_some() {
        return Err(HsFault::Repeated);
    }
    Ok(BlocksRef {
        congestion: Some(CongestionRef { contents }),
        ..before
    })
}

/// Adds a block of this type and contents to the blocks before it.
#[tactic(auto, unfolding(crate::specs::Reading::with_block))]
fn with_block<'a>(
    before: BlocksRef<'a>,
    number: u16,
    contents: &'a [u8],
) -> Result<BlocksRef<'a>, HsFault>
    requires { length contents.now % 4 ≡ 0 }
    ensures { seen_blocks result ≡ block_added (blocks_of before.entry) number contents.now }
{
    match number {
        1 => with_hsreq(before, contents),
        3 => Ok(BlocksRef {
            has_kmreq: true,
            ..before
        }),
        5 => with_stream_id(before, contents),
        6 => with_congestion(before, contents),
        7 => Ok(BlocksRef {
            has_filter: true,
            ..before
        }),
        8 => Ok(BlocksRef {
            has_group: true,
            ..before
        }),
        _ => Ok(before),
    }
}

/// Adds the first block of these bytes to the blocks before it, and returns the bytes after that block too.
#[tactic(auto, unfolding(crate::specs::Reading::with_first))]
fn with_first<'a>(
    before: BlocksRef<'a>,
    bytes: &'a [u8],
) -> Result<(BlocksRef<'a>, &'a [u8]), HsFault>
    ensures blocks { seen_blocks (first_of result) ≡ first_added (blocks_of before.entry) bytes.now }
    ensures rest { IfOk result (λ x. x.1.now ≡ after_block bytes.now) }
    ensures shorter { IfOk result (λ x. length x.1.now + 4 ≤ length bytes.now) }
{
    if bytes.len() < 4 {
        return Err(HsFault::TruncatedExtension);
    }
    let len = 4 * usize::from(read_half(bytes, 2));
    let rest = &bytes[4..];
    if rest.len() < len {
        return Err(HsFault::TruncatedExtension);
    }
    let next = with_block(before, read_half(bytes, 0), &rest[..len])?;
    Ok((next, &rest[len..]))
}

/// Reads all blocks of these bytes.
#[tactic(auto, unfolding(crate::specs::Reading::blocks_in))]
fn read_blocks(bytes: &[u8]) -> Result<BlocksRef<'_>, HsFault>
    ensures { seen_blocks result ≡ blocks_in bytes.now }
{
    let mut blocks = BlocksRef {
        hsreq: None,
        stream_id: None,
        congestion: None,
        has_kmreq: false,
        has_filter: false,
        has_group: false,
    };
    let mut rest = bytes;
    while !rest.is_empty() {
        let (next, after) = with_first(blocks, rest)?;
        blocks = next;
        rest = after;
    }
    Ok(blocks)
}

/// Reads the extension blocks of a handshake of this kind: those of the bytes in a conclusion, else none.
#[tactic(auto, unfolding(crate::specs::Reading::blocks_in))]
fn read_extension(kind: HsKind, bytes: &[u8]) -> Result<BlocksRef<'_>, HsFault>
    ensures { seen_blocks result ≡ extension_in kind bytes.now }
{
    match kind {
        HsKind::Conclusion => read_blocks(bytes),
        _ => read_blocks(&bytes[..0]),
    }
}

/// Returns the result of [`read`].
fn parse(body: &[u8]) -> Result<HsRef<'_>, HsFault>
    ensures { seen result ≡ handshake_in body.now }
{
    if body.len() < 48 {
        return Err(HsFault::Short);
    }
    let kind = named(read_word(body, 20));
    let blocks = read_extension(kind, &body[48..])?;
    Ok(HsRef {
        version: read_word(body, 0),
        encryption: read_half(body, 4),
        extension: read_half(body, 6),
        initial: read_word(body, 8),
        mtu: read_word(body, 12),
        window: read_word(body, 16),
        kind,
        id: read_word(body, 24),
        cookie: read_word(body, 28),
        blocks,
    })
}

/// Reads the bytes after a packet's header as a handshake. Only the form is checked: version, encryption field,
/// extension field and peer address may have any value. Extension blocks are read only in a conclusion; in any other
/// handshake, bytes after the first 48 are ignored. Copies no block. Linear in the number of blocks.
pub fn read(body: &[u8]) -> Result<HsRef<'_>, HsFault>
    ensures value { seen result ≡ handshake_in body.now }
    // The bytes encode the returned handshake.
    ensures found { IfOk result (λ h. Spells body.now (handshake_of h)) }
    // A handshake that the bytes encode is returned.
    ensures only { (hs : Handshake) → Spells body.now hs → IsOkAnd result (λ h. handshake_of h ≡ hs) }
    // The fault is the first from the left.
    ensures fault { IfErr result (λ fault. HasFault body.now fault) }
{
    parse(body)
}
