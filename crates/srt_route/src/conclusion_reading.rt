//! What a route reads from a conclusion handshake (draft-sharabayko-srt-01, sections 3.2.1 and 4.3.1.2).

ghost use Rattle.std.specs.Prelude.{◌≡◌, ◌^◌, ◌<◌, IfSome};
ghost use Rattle.srt_hs.specs.View.{handshake_of, text_of};
ghost use Rattle.srt_route.specs.Conclusions.{conclusion_in, conclusion_of, is_conclusion, role_requested};

use srt_hs::{CongestionText, HsKind, HsRef, congestion, read, stream_id};
use srt_types::Role;
use srt_types::protocol_limits::MAX_STREAM_ID;

/// The values that a route reads from a conclusion.
#[derive(Drop)]
pub struct Conclusion {
    /// The initial packet sequence number: below 2^31.
    pub initial: u32,
    /// The greatest packet, in bytes, with the headers of IP and UDP.
    pub mtu: u32,
    /// The flow window, in packets.
    pub window: u32,
    /// The caller's socket ID.
    pub caller: u32,
    /// The flag STREAM: the caller wants buffer mode.
    pub wants_stream: bool,
    /// The flag PERIODICNAK: the caller reports losses periodically (section 3.2.1.1.1).
    pub periodic_nak: bool,
    /// The caller's delay as a receiver, in milliseconds (section 3.2.1.1).
    pub receiver_ms: u16,
    /// The caller's delay as a sender, in milliseconds (section 3.2.1.1).
    pub sender_ms: u16,
    /// Whether the caller wants to publish or to subscribe.
    pub role: Role,
    /// The words of the congestion control block as received, 1 to 4.
    pub congestion: Option<CongestionText>,
}

fn is_conclusion(kind: HsKind) -> bool
    ensures { result ≡ is_conclusion kind }
{
    matches!(kind, HsKind::Conclusion)
}

/// Returns the role that a handshake's Stream ID requests (appendix B). None without a Stream ID, or if it has a fault.
fn role_requested(hs: &HsRef<'_>) -> Option<Role>
    ensures { result ≡ role_requested (handshake_of hs.now).blocks.stream_id }
{
    let mut text = [0u8; MAX_STREAM_ID];
    let len = stream_id(hs, &mut text)?;
    match srt_streamid::read(&text[..len]) {
        Ok(ask) => Some(ask.role),
        Err(_) => None,
    }
}

fn text_of(hs: &HsRef<'_>) -> Option<CongestionText>
    ensures { result ≡ text_of (handshake_of hs.now).blocks.congestion }
{
    congestion(hs)
}

#[tactic(auto, unfolding(crate::specs::Conclusions::conclusion_of))]
fn conclusion_of(hs: &HsRef<'_>) -> Option<Conclusion>
    ensures value { result ≡ conclusion_of (handshake_of hs.now) }
    ensures small { IfSome result (λ c. c.initial < 2 ^ 31) }
{
    if !is_conclusion(hs.kind) || hs.version != 5 || hs.initial >= 1 << 31 {
        return None;
    }
    let req = hs.blocks.hsreq?;
    let role = role_requested(hs)?;
    Some(Conclusion {
        initial: hs.initial,
        mtu: hs.mtu,
        window: hs.window,
        caller: hs.id,
        wants_stream: (req.flags >> 6) & 1 == 1,
        periodic_nak: req.has_periodic_nak(),
        receiver_ms: req.receiver_ms,
        sender_ms: req.sender_ms,
        role,
        congestion: text_of(hs),
    })
}

/// Reads a conclusion from the bytes after a packet's header. None unless they are a conclusion of version 5 with an
/// initial sequence number below 2^31, an HSREQ and a Stream ID without a fault.
#[tactic(auto, unfolding(crate::specs::Conclusions::conclusion_in))]
pub fn conclusion_in(info: &[u8]) -> Option<Conclusion>
    ensures value { result ≡ conclusion_in info.now }
    ensures small { IfSome result (λ c. c.initial < 2 ^ 31) }
{
    match read(info) {
        Ok(hs) => conclusion_of(&hs),
        Err(_) => None,
    }
}
