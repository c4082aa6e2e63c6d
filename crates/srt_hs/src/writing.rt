//! The listener's answers, encoded into a buffer (draft-sharabayko-srt-01, sections 3.2.1 and 4.3).

ghost use Rattle.std.specs.Prelude.{◌≡◌, ℕ, ◌+◌, ◌*◌, ◌≤◌, ◌++◌, length, take, drop, Some};
ghost use Rattle.srt_hs.specs.View.{text_words};
ghost use Rattle.srt_hs.specs.Text.{answer_text, answer_with, encryption_text, hsrsp_text, kmrsp_text, congestion_text};

use crate::CongestionText;
use crate::refusal_codes::RefusalCode;
use crate::response_flags::flags;
use srt_types::protocol_limits::{MAX_ANSWER, MAX_ANSWER_WITH_KEYS, MAX_MTU};
use srt_types::{Mode, write_at, write_words};

/// The kind of an answer, and its content apart from the initial number. The other fields of the 48 bytes are fixed:
/// version 5, no encryption, and zeros for the peer's address.
#[derive(Debug, Drop)]
pub enum AnswerKind {
    /// The answer to an induction, with the cookie that the conclusion must return (section 4.3.1.1). Extension 0x4a17,
    /// MTU 1500, window 8192, socket ID 1.
    Induction(u32),
    /// A refusal, with its reason as the handshake type (section 4.3). Extension 0, MTU 1500, window 8192, socket ID 1,
    /// cookie 0.
    Refusal(RefusalCode),
    /// The answer to a conclusion that opens a session (section 4.3.1.2), with an HSRSP block that reports SRT 1.5.0.
    /// Cookie 0.
    Conclusion {
        /// The agreed MTU: the maximum size of a packet, in bytes, including the headers of IP and UDP.
        mtu: u32,
        /// The listener's flow window, in packets.
        window: u32,
        /// The session's socket ID.
        id: u32,
        /// The delivery mode of the route, which determines the flags of the HSRSP.
        mode: Mode,
        /// The agreed TSBPD delay for data from the caller, in milliseconds; 0 in buffer mode (section 4.4).
        recv_ms: u16,
        /// The agreed TSBPD delay for data to the caller, in milliseconds; 0 in buffer mode (section 4.4).
        send_ms: u16,
        /// The words of the caller's CONGESTION block, which the answer repeats; None if the caller sent none.
        congestion: Option<CongestionText>,
    },
}

/// An answer to a caller's handshake, without the packet's header.
#[derive(Debug, Drop)]
pub struct HsAnswer {
    /// The caller's initial sequence number, as received: any word.
    pub initial: u32,
    /// The kind of the answer and its content.
    pub what: AnswerKind,
}

/// The fields that differ between answers.
#[derive(Clone, Copy)]
struct Fields {
    encryption: u16,
    extension: u16,
    initial: u32,
    mtu: u32,
    window: u32,
    kind: u32,
    id: u32,
    cookie: u32,
}

/// Writes the 48 bytes before the extension blocks, and returns 48.
fn write_fields(fields: Fields, out: &mut [u8]) -> usize
    requires { 48 ≤ length out.old }
    ensures end { result ≡ 48 }
    ensures written { take result out.new ≡ encryption_text fields.encryption fields.extension fields.initial fields.mtu fields.window fields.kind fields.id
        fields.cookie }
    ensures kept { (k : ℕ) → result ≤ k → drop k out.new ≡ drop k out.old }
{
    let mut end = write_at(out, 0, &[0, 0, 0, 5]);
    end = write_at(out, end, &fields.encryption.to_be_bytes());
    end = write_at(out, end, &fields.extension.to_be_bytes());
    end = write_at(out, end, &fields.initial.to_be_bytes());
    end = write_at(out, end, &fields.mtu.to_be_bytes());
    end = write_at(out, end, &fields.window.to_be_bytes());
    end = write_at(out, end, &fields.kind.to_be_bytes());
    end = write_at(out, end, &fields.id.to_be_bytes());
    end = write_at(out, end, &fields.cookie.to_be_bytes());
    write_at(out, end, &[0; 16])
}

/// Returns the bytes of an HSRSP block; the delays are milliseconds (section 3.2.1.1).
fn hsrsp(mode: Mode, recv_ms: u16, send_ms: u16) -> [u8; 16]
    ensures { result ≡ hsrsp_text mode recv_ms send_ms }
{
    let flags = flags(mode).to_be_bytes();
    let recv = recv_ms.to_be_bytes();
    let send = send_ms.to_be_bytes();
    [
        0, 2, 0, 3, 0, 1, 5, 0, flags[0], flags[1], flags[2], flags[3], recv[0], recv[1], send[0],
        send[1],
    ]
}

/// Writes a CONGESTION block from the offset `at` on, and returns the offset of its end.
#[tactic(auto, using(srt_types::proofs::WordBytes::length_of_words))]
fn write_congestion(text: &CongestionText, out: &mut [u8], at: usize) -> usize
    requires room { at + 20 ≤ length out.old }
    ensures within { result ≤ at + 20 }
    ensures end { result ≡ at + 4 + 4 * length (text_words text.now) }
    ensures written { take result out.new ≡ take at out.old ++ congestion_text (Some (text_words text.now)) }
    ensures kept { (k : ℕ) → result ≤ k → drop k out.new ≡ drop k out.old }
{
    let end = write_at(out, at, &[0, 6]);
    let len = 1 + text.others.len();
    let end = write_at(out, end, &(len as u16).to_be_bytes());
    let end = write_at(out, end, &text.first.to_be_bytes());
    write_words(out, end, text.others.as_slice())
}

/// Writes an answer, without the packet's header, to the front of the buffer, and returns its length in bytes: 48; for
/// a conclusion 64, or 72 to 84 with a CONGESTION block. The rest of the buffer is unchanged. O(1).
#[tactic(auto, unfolding(crate::specs::Text::answer_text))]
pub fn write(answer: &HsAnswer, out: &mut [u8; MAX_ANSWER]) -> usize
    ensures within { result ≤ 84 }
    ensures written { take result out.new ≡ answer_text answer.now }
    ensures kept { (k : ℕ) → result ≤ k → drop k out.new ≡ drop k out.old }
{
    let mut fields = Fields {
        encryption: 0,
        extension: 0,
        initial: answer.initial,
        mtu: MAX_MTU,
        window: 8192,
        kind: 1,
        id: 1,
        cookie: 0,
    };
    match &answer.what {
        AnswerKind::Induction(cookie) => {
            fields.extension = 0x4a17;
            fields.cookie = *cookie;
            write_fields(fields, out)
        }
        AnswerKind::Refusal(reason) => {
            fields.kind = reason.number();
            write_fields(fields, out)
        }
        AnswerKind::Conclusion {
            mtu,
            window,
            id,
            mode,
            recv_ms,
            send_ms,
            congestion,
        } => {
            fields.extension = if congestion.is_some() { 5 } else { 1 };
            fields.mtu = *mtu;
            fields.window = *window;
            fields.kind = 0xffff_ffff;
            fields.id = *id;
            let end = write_fields(fields, out);
            let end = write_at(out, end, &hsrsp(*mode, *recv_ms, *send_ms));
            match congestion {
                None => end,
                Some(text) => write_congestion(text, out, end),
            }
        }
    }
}

/// Writes a KMRSP block with these contents from the offset `at` on, and returns the offset of its end.
fn write_keys(message: &[u8], out: &mut [u8], at: usize) -> usize
    requires most { length message.now ≤ 104 }
    requires room { at + 108 ≤ length out.old }
    ensures end { result ≡ at + 4 + length message.now }
    ensures written { take result out.new ≡ take at out.old ++ kmrsp_text message.now }
    ensures kept { (k : ℕ) → result ≤ k → drop k out.new ≡ drop k out.old }
{
    let end = write_at(out, at, &[0, 4]);
    let len = message.len() / 4;
    let end = write_at(out, end, &(len as u16).to_be_bytes());
    write_at(out, end, message)
}

/// Writes an answer as [`write`] does, to the front of a longer buffer.
fn write_without_keys(answer: &HsAnswer, out: &mut [u8; MAX_ANSWER_WITH_KEYS]) -> usize
    ensures within { result ≤ 84 }
    ensures written { take result out.new ≡ answer_text answer.now }
    ensures kept { (k : ℕ) → result ≤ k → drop k out.new ≡ drop k out.old }
{
    let mut text = [0; MAX_ANSWER];
    let len = write(answer, &mut text);
    write_at(out, 0, &text[..len])
}

/// Writes an answer to a conclusion with keys, without the packet's header, to the front of the buffer, and returns its
/// length in bytes: at most 192. `message` is the contents of the conclusion's KMREQ block, a key material message, which
/// the answer repeats unchanged as a KMRSP block (section 3.2.2); the encryption field has its key length. Other answers have no keys, and
/// are written as [`write`] does. The rest of the buffer is unchanged. O(1).
#[tactic(auto, unfolding(crate::specs::Text::answer_with))]
pub fn write_with_keys(
    answer: &HsAnswer,
    message: &[u8],
    out: &mut [u8; MAX_ANSWER_WITH_KEYS],
) -> usize
    requires some { 16 ≤ length message.now }
    requires most { length message.now ≤ 104 }
    ensures within { result ≤ 192 }
    ensures written { take result out.new ≡ answer_with (Some message.now) answer.now }
    ensures kept { (k : ℕ) → result ≤ k → drop k out.new ≡ drop k out.old }
{
    match &answer.what {
        AnswerKind::Conclusion {
            mtu,
            window,
            id,
            mode,
            recv_ms,
            send_ms,
            congestion,
        } => {
            let fields = Fields {
                encryption: u16::from(message[15] / 2),
                extension: if congestion.is_some() { 7 } else { 3 },
                initial: answer.initial,
                mtu: *mtu,
                window: *window,
                kind: 0xffff_ffff,
                id: *id,
                cookie: 0,
            };
            let end = write_fields(fields, out);
            let end = write_at(out, end, &hsrsp(*mode, *recv_ms, *send_ms));
            let end = write_keys(message, out, end);
            match congestion {
                None => end,
                Some(text) => write_congestion(text, out, end),
            }
        }
        AnswerKind::Induction(_) => write_without_keys(answer, out),
        AnswerKind::Refusal(_) => write_without_keys(answer, out),
    }
}
