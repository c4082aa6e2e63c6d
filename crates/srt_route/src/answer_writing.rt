//! Answers to handshakes, and their encoding.

ghost use Rattle.std.specs.Prelude.{◌≡◌};
ghost use Rattle.srt_types.specs.Terms.{Terms};
ghost use Rattle.srt_route.specs.Written.{written};
ghost use Rattle.srt_route.specs.Sessions.{agreed};
ghost use Rattle.srt_route.specs.Route.{Answers, AnswersWithKeys, refusal, sent};
ghost use Rattle.srt_route.specs.Admission.{agreement_of};
ghost use Rattle.srt_route.specs.declared.conclusion_reading.Conclusion.{Conclusion as TheConclusion};

use crate::agreement::Agreement;
use crate::conclusion_reading::Conclusion;
use crate::key_text::KeyText;
use crate::replies::Reply;
use arrayvec::ArrayVec;
use srt_hs::{AnswerKind, HsAnswer, RefusalCode, write, write_with_keys};
use srt_packet::{Body, Packet};
use srt_types::Peer;
use srt_types::protocol_limits::{MAX_ANSWER, MAX_ANSWER_WITH_KEYS};

/// Returns the answer that refuses a conclusion for this reason, with the caller's initial sequence number.
pub fn refusal(initial: u32, reason: RefusalCode) -> HsAnswer
    ensures { (c : TheConclusion) → c.initial ≡ initial → result ≡ refusal c reason }
{
    HsAnswer {
        initial,
        what: AnswerKind::Refusal(reason),
    }
}

/// Returns the answer to a conclusion that opens the session with this socket ID. The window is in packets.
pub fn accepted(agreement: Agreement, window: u32, id: u32, c: Conclusion) -> HsAnswer
    ensures { (e : Terms) → agreement ≡ agreement_of e c → window ≡ e.buffer → result ≡ agreed e id c }
{
    HsAnswer {
        initial: c.initial,
        what: AnswerKind::Conclusion {
            mtu: agreement.mtu,
            window,
            id,
            mode: agreement.mode,
            recv_ms: agreement.receiver_ms,
            send_ms: agreement.sender_ms,
            congestion: c.congestion,
        },
    }
}

/// Writes a handshake answer with the contents of a KMREQ block into `reply`, to the caller's socket with this ID
/// (section 3.2.2).
pub fn answer_with_keys_to(
    reply: &mut Reply,
    peer: Peer,
    caller: u32,
    answer: &HsAnswer,
    request: &KeyText,
)
    ensures { written reply.new ≡ sent (record { peer = peer; packet = AnswersWithKeys caller request.now.bytes.items answer.now }) }
{
    let mut out = [0u8; MAX_ANSWER_WITH_KEYS];
    let len = write_with_keys(answer, request.bytes.as_slice(), &mut out);
    let mut info = ArrayVec::new();
    let _ = info.try_extend_from_slice(&out[..len]);
    reply.peer = peer;
    reply.packet.write(&Packet {
        stamp: 0,
        dest: caller,
        body: Body::Handshake(info),
    });
}

/// Writes a handshake answer into `reply`, to the caller's socket with this ID. Its timestamp is 0 (our choice).
pub fn answer_to(reply: &mut Reply, peer: Peer, caller: u32, answer: &HsAnswer)
    ensures { written reply.new ≡ sent (record { peer = peer; packet = Answers caller answer.now }) }
{
    let mut out = [0u8; MAX_ANSWER];
    let len = write(answer, &mut out);
    let mut info = ArrayVec::new();
    let _ = info.try_extend_from_slice(&out[..len]);
    reply.peer = peer;
    reply.packet.write(&Packet {
        stamp: 0,
        dest: caller,
        body: Body::Handshake(info),
    });
}
