//! What both sides of a session agree on (sections 4.3.1.2 and 4.4): the delays in live mode, and the MTU; together
//! with the rules of the route.

ghost use Rattle.std.specs.Prelude.{◌≡◌};
ghost use Rattle.srt_types.specs.Terms.{Terms};
ghost use Rattle.srt_route.specs.Sessions.{agreed_ms};
ghost use Rattle.srt_route.specs.Admission.{agreement_of};

use crate::conclusion_reading::Conclusion;
use srt_types::protocol_limits::MAX_MTU;
use srt_types::{Mode, Rules};

/// The negotiated parameters of a session, and the rules of the route.
#[derive(Clone, Copy)]
pub struct Agreement {
    /// The route's mode.
    pub mode: Mode,
    /// The TSBPD delay of data from the caller to the gateway, in milliseconds; 0 in buffer mode.
    pub receiver_ms: u16,
    /// The TSBPD delay of data from the gateway to the caller, in milliseconds; 0 in buffer mode.
    pub sender_ms: u16,
    /// The MTU: the size of the largest packet in bytes, with the headers of IP and UDP, at most 1500.
    pub mtu: u32,
    /// The route's rules beyond the draft.
    pub rules: Rules,
}

/// Returns a session's delay in milliseconds, from the delays that both sides request: the greater one in live mode, 0
/// in buffer mode (section 4.4).
fn agreed_ms(mode: Mode, ours: u16, theirs: u16) -> u16
    ensures { result ≡ agreed_ms mode ours theirs }
{
    match mode {
        Mode::Live => ours.max(theirs),
        Mode::Buffer => 0,
    }
}

/// Returns what a route and a conclusion agree on: in live mode the greater of both delays in each direction, in buffer
/// mode none; and the smaller MTU, at most 1500. The route's rules are copied.
pub fn agree(mode: Mode, latency_ms: u16, rules: Rules, c: &Conclusion) -> Agreement
    ensures { (e : Terms) → mode ≡ e.mode → latency_ms ≡ e.latency_ms → rules ≡ e.rules → result ≡ agreement_of e c.now }
{
    Agreement {
        mode,
        receiver_ms: agreed_ms(mode, latency_ms, c.sender_ms),
        sender_ms: agreed_ms(mode, latency_ms, c.receiver_ms),
        mtu: c.mtu.min(MAX_MTU),
        rules,
    }
}
