//! The bytes of a sample. An error is a failed allocation; the text then has the bytes of all previous calls.

ghost use Rattle.std.specs.Prelude.{◌≡◌, ◌++◌, ◌≤◌, ◌<◌, IfOk, OnOk};
ghost use Rattle.std.specs.List.{flat_map};
ghost use Rattle.srt_samples.specs.Samples.{bytes_of, body_bytes, header_bytes, word as word_bytes, words, ack_words, loss_bytes};
ghost use Rattle.srt_samples.specs.Samples.{phase_word, handshake_bytes, offer_words, block_bytes, byte_at, group, groups, text_bytes};

use crate::handshakes::{Block, Handshake, Offer, Phase};
use crate::samples::{Acknowledged, Body, Loss, Sample};
use std::alloc::{AllocError, Global};

/// The maximum length of the text in a block, in bytes, that of a Stream ID (section 3.2.1.3).
const MAX_STREAM_ID: usize = 512;

/// Appends bytes to a text.
fn put(out: &mut Vec<u8>, bytes: &[u8]) -> Result<(), AllocError>
    ensures { OnOk result (out.new.items ≡ out.old.items ++ bytes.now) }
{
    out.extend_from_slice(bytes)
}

/// Appends a word, its most significant byte first.
fn put_word(out: &mut Vec<u8>, word: u32) -> Result<(), AllocError>
    ensures { OnOk result (out.new.items ≡ out.old.items ++ word_bytes word) }
{
    put(out, &word.to_be_bytes())
}

/// Appends words.
#[tactic(auto, using(crate::proofs::Puts::one_more))]
fn put_words(out: &mut Vec<u8>, list: &[u32]) -> Result<(), AllocError>
    ensures { OnOk result (out.new.items ≡ out.old.items ++ words list.now) }
{
    for each in list {
        put_word(out, *each)?;
    }
    Ok(())
}

/// Appends an entry of a loss list: a range is its first number with the top bit set, and its last number (appendix A).
fn put_loss(out: &mut Vec<u8>, loss: Loss) -> Result<(), AllocError>
    ensures { OnOk result (out.new.items ≡ out.old.items ++ loss_bytes loss) }
{
    match loss {
        Loss::Single(number) => put_words(out, &[number]),
        Loss::Range(first, last) => put_words(out, &[first.wrapping_add(0x8000_0000), last]),
    }
}

/// Appends a loss list.
#[tactic(auto, using(crate::proofs::Puts::one_more))]
fn put_losses(out: &mut Vec<u8>, losses: &[Loss]) -> Result<(), AllocError>
    ensures { OnOk result (out.new.items ≡ out.old.items ++ flat_map loss_bytes losses.now) }
{
    for loss in losses {
        put_loss(out, *loss)?;
    }
    Ok(())
}

/// Returns the word of a handshake type (section 3.2.1, table 4).
fn phase_word(phase: Phase) -> u32
    ensures { result ≡ phase_word phase }
{
    match phase {
        Phase::Induction => 1,
        Phase::Conclusion => 0xffff_ffff,
        Phase::Refused(code) => code,
    }
}

/// Appends the words of a handshake before its extension blocks.
fn put_handshake(out: &mut Vec<u8>, handshake: Handshake) -> Result<(), AllocError>
    ensures { OnOk result (out.new.items ≡ out.old.items ++ handshake_bytes handshake) }
{
    put_words(
        out,
        &[
            handshake.version,
            handshake.fields,
            handshake.initial,
            handshake.mtu,
            handshake.window,
            phase_word(handshake.phase),
            handshake.id,
            handshake.cookie,
            handshake.address,
            0,
            0,
            0,
        ],
    )
}

/// Returns the byte at this offset, or 0 past the end.
fn byte_at(text: &[u8], at: usize) -> u8
    ensures { result ≡ byte_at text.now at }
{
    match text.get(at) {
        Some(byte) => *byte,
        None => 0,
    }
}

/// Appends the four bytes of a text at an offset in reverse order, with zeros past its end (section 3.2.1.3).
fn put_group(out: &mut Vec<u8>, text: &[u8], at: usize) -> Result<(), AllocError>
    requires { at < 512 }
    ensures { OnOk result (out.new.items ≡ out.old.items ++ group text.now at) }
{
    put(
        out,
        &[
            byte_at(text, at + 3),
            byte_at(text, at + 2),
            byte_at(text, at + 1),
            byte_at(text, at),
        ],
    )
}

/// Appends the first `count` groups of four bytes of a text.
#[tactic(auto, using(crate::proofs::Puts::one_group_more))]
fn put_groups(out: &mut Vec<u8>, text: &[u8], count: u32) -> Result<(), AllocError>
    requires { count ≤ 128 }
    ensures { OnOk result (out.new.items ≡ out.old.items ++ groups text.now count) }
{
    for at in 0..count {
        put_group(out, text, 4 * at as usize)?;
    }
    Ok(())
}

/// Appends a block of this type with a text, in groups of four bytes. A text that is too long is cut off after 512
/// bytes.
#[tactic(auto, using(crate::proofs::Puts::joined))]
fn put_text(out: &mut Vec<u8>, kind: u16, text: &str) -> Result<(), AllocError>
    ensures { OnOk result (out.new.items ≡ out.old.items ++ text_bytes kind text.now) }
{
    let bytes = text.as_bytes();
    let count = (bytes.len().min(MAX_STREAM_ID) + 3) as u32 / 4;
    put_word(out, u32::from(kind) * 0x1_0000 + count)?;
    put_groups(out, bytes, count)
}

/// Appends HSREQ, of type 1, or HSRSP, of type 2 (section 3.2.1.1).
fn put_offer(out: &mut Vec<u8>, kind: u16, offer: Offer) -> Result<(), AllocError>
    ensures { OnOk result (out.new.items ≡ out.old.items ++ words (offer_words kind offer)) }
{
    put_words(
        out,
        &[
            u32::from(kind) * 0x1_0000 + 3,
            offer.version,
            offer.flags,
            u32::from(offer.receiver_ms) * 0x1_0000 + u32::from(offer.sender_ms),
        ],
    )
}

/// Appends an extension block.
fn put_block(out: &mut Vec<u8>, block: Block<'_>) -> Result<(), AllocError>
    ensures { OnOk result (out.new.items ≡ out.old.items ++ block_bytes block.entry) }
{
    match block {
        Block::Request(offer) => put_offer(out, 1, offer),
        Block::Response(offer) => put_offer(out, 2, offer),
        Block::StreamId(text) => put_text(out, 5, text),
        Block::Congestion(text) => put_text(out, 6, text),
    }
}

/// Appends extension blocks.
#[tactic(auto, using(crate::proofs::Puts::one_more))]
fn put_blocks(out: &mut Vec<u8>, blocks: &[Block<'_>]) -> Result<(), AllocError>
    ensures { OnOk result (out.new.items ≡ out.old.items ++ flat_map block_bytes blocks.now) }
{
    for block in blocks {
        put_block(out, *block)?;
    }
    Ok(())
}

/// Appends a handshake and its extension blocks.
#[tactic(auto, using(crate::proofs::Puts::joined))]
fn put_handshake_and_blocks(
    out: &mut Vec<u8>,
    handshake: Handshake,
    blocks: &[Block<'_>],
) -> Result<(), AllocError>
    ensures { OnOk result (out.new.items ≡ out.old.items ++ (handshake_bytes handshake ++ flat_map block_bytes blocks.now)) }
{
    put_handshake(out, handshake)?;
    put_blocks(out, blocks)
}

/// Appends the words of a Full ACK.
fn put_acknowledged(out: &mut Vec<u8>, reported: Acknowledged) -> Result<(), AllocError>
    ensures { OnOk result (out.new.items ≡ out.old.items ++ words (ack_words reported)) }
{
    put_words(
        out,
        &[
            reported.point,
            reported.rtt,
            reported.variance,
            reported.available,
            0,
            0,
            0,
        ],
    )
}

/// Appends the bytes after the header.
fn put_body(out: &mut Vec<u8>, body: Body<'_>) -> Result<(), AllocError>
    ensures { OnOk result (out.new.items ≡ out.old.items ++ body_bytes body.entry) }
{
    match body {
        Body::Nothing => put_words(out, &[]),
        Body::Point(point) => put_words(out, &[point]),
        Body::Words(list) => put_words(out, list),
        Body::Acknowledged(reported) => put_acknowledged(out, reported),
        Body::Losses(losses) => put_losses(out, losses),
        Body::Dropped(first, last) => put_words(out, &[first, last]),
        Body::Handshake(handshake, blocks) => put_handshake_and_blocks(out, handshake, blocks),
    }
}

/// Appends the words of the header.
fn put_header(out: &mut Vec<u8>, sample: &Sample<'_>) -> Result<(), AllocError>
    ensures { OnOk result (out.new.items ≡ out.old.items ++ header_bytes sample.now.first sample.now.second sample.now.stamp sample.now.destination) }
{
    put_words(
        out,
        &[
            sample.first,
            sample.second,
            sample.stamp,
            sample.destination,
        ],
    )
}

impl<'a> Sample<'a> {
    /// Returns the bytes of the datagram. Its only error is a failed allocation.
    #[tactic(auto, using(crate::proofs::Puts::joined))]
    pub fn bytes(&self, alloc: Global) -> Result<Vec<u8>, AllocError>
        ensures { IfOk result (λ bytes. bytes.items ≡ bytes_of self.now) }
    {
        let mut out = Vec::new(alloc);
        put_header(&mut out, self)?;
        put_body(&mut out, self.body)?;
        put(&mut out, self.rest)?;
        Ok(out)
    }
}
