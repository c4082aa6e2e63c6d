//! The packets that a session sends, as bytes. Times are microseconds since the opening.

ghost use Rattle.std.specs.Prelude.{◌≡◌, ℕ, ◌%◌, ◌^◌, ◌≤◌, length, option_map, true, false, IfSome};
ghost use Rattle.srt_types.specs.Given.{given};
ghost use Rattle.srt_types.specs.Runs.{Run};
ghost use Rattle.srt_sendbuf.specs.Sending.{Due};
ghost use Rattle.srt_sendbuf.specs.Stands.{Becomes, ForWhatever};
ghost use Rattle.srt_sendbuf.specs.Outgoing.{gone_by, outgoing, outgoing_of};
ghost use Rattle.srt_packet.specs.Encoded.{bytes_of, IsPacketText};
ghost use Rattle.srt_sub.specs.Subscribing.{Acked, Dropped, KeepAlive, Media};
ghost use Rattle.srt_sub.specs.Says.{says};
ghost use Rattle.srt_sub.specs.Stands.{run_gone};
ghost use Rattle.srt_sub.specs.inside.Turns.{after_next, next_in, texts, WritesDue};

use crate::session::Phase;
use srt_packet::{Body, EncodedPacket, Packet};
use srt_sendbuf::{DropRun, Out, SendBuf};
use srt_types::PayloadRef;

/// Returns the packet timestamp of a time: the time modulo 2^32.
fn stamp(time: u64) -> u32
    ensures { result ≡ time % 2 ^ 32 }
{
    (time % (1 << 32)) as u32
}

/// Writes an ACKACK, which answers the Full ACK with the number `mark` (section 3.2.8). `caller` is the destination's
/// socket ID.
#[inline(always)]
pub fn acked(mark: u32, time: u64, caller: u32, packet: &mut EncodedPacket)
    ensures text { (initial : ℕ) → bytes_of packet.new ≡ says caller initial time (Acked mark) }
    ensures packet { IsPacketText (bytes_of packet.new) }
{
    packet.write(&Packet {
        stamp: stamp(time),
        dest: caller,
        body: Body::AckAck { number: mark },
    });
}

/// Writes a KEEPALIVE (section 3.2.3). `caller` is the destination's socket ID.
#[inline(always)]
pub fn keep_alive(time: u64, caller: u32, packet: &mut EncodedPacket)
    ensures text { (initial : ℕ) → bytes_of packet.new ≡ says caller initial time KeepAlive }
    ensures packet { IsPacketText (bytes_of packet.new) }
{
    packet.write(&Packet {
        stamp: stamp(time),
        dest: caller,
        body: Body::KeepAlive,
    });
}

/// Writes a DROPREQ for these numbers (section 3.2.9). `caller` is the destination's socket ID.
#[inline(always)]
pub fn dropped(run: DropRun, time: u64, caller: u32, packet: &mut EncodedPacket)
    ensures text { (initial : ℕ) (r : Run) → gone_by run ≡ run_gone initial r → bytes_of packet.new ≡ says caller initial time (Dropped r) }
    ensures packet { IsPacketText (bytes_of packet.new) }
{
    packet.write(&Packet {
        stamp: stamp(time),
        dest: caller,
        body: Body::DropRequest {
            message: run.message,
            first: run.first,
            last: run.last,
        },
    });
}

/// Writes this packet (section 3.1). Its timestamp is the time at which its payload was queued. Returns false, with
/// `packet` unchanged, if its payload is empty. No caller feeds an empty payload; due to this check, a packet can be
/// written without a precondition on the queue. One copy of the payload. The flag R of a packet that is sent again
/// (section 3.1) is `out.again`: `srt_sendbuf` sets it for lost packets (`next_due.rt`).
#[inline(always)]
fn write(out: Out<'_>, caller: u32, packet: &mut EncodedPacket) -> bool
    requires { length out.payload.now ≤ 1456 }
    ensures text { result ≡ true → (initial time : ℕ) (d : Due) → outgoing_of out.entry ≡ outgoing initial d
        → bytes_of packet.new ≡ says caller initial time (Media d.number d.again d.origin d.payload) }
    ensures packet { result ≡ true → IsPacketText (bytes_of packet.new) }
    ensures same { result ≡ false → packet.new ≡ packet.old }
    ensures empty { result ≡ false → length out.entry.payload.now ≡ 0 }
{
    let bytes = out.payload;
    if bytes.is_empty() {
        return false;
    }
    packet.write(&Packet {
        stamp: stamp(out.origin),
        dest: caller,
        body: Body::Media {
            number: out.number,
            message: out.message,
            again: out.again,
            payload: PayloadRef { bytes },
        },
    });
    true
}

/// Returns the data packet that is due in this phase, for this flow window in packets.
#[inline(always)]
fn next_in(buffer: &SendBuf, phase: Phase, window: u32) -> Option<Out<'_>>
    ensures answer { ForWhatever buffer.now (λ width initial r. option_map outgoing_of result ≡ option_map (outgoing initial) (next_in phase window r)) }
    ensures fits { IfSome result (λ o. length o.payload.now ≤ 1456) }
{
    match phase {
        Phase::Lost => buffer.next_due(window),
        Phase::New => buffer.next_new(window),
    }
}

/// Records that the data packet that is due in this phase, for this flow window in packets, was sent.
#[inline(always)]
fn note_sent(buffer: &mut SendBuf, phase: Phase, window: u32)
    ensures { Becomes buffer.old buffer.new (λ initial r. after_next phase window r) }
{
    match phase {
        Phase::Lost => buffer.note_sent(window),
        Phase::New => buffer.note_new_sent(window),
    }
}

/// Writes the data packet that is due in this phase, for this flow window in packets. Returns false, with `packet`
/// unchanged, if none is due.
#[inline(always)]
fn write_due(
    buffer: &SendBuf,
    phase: Phase,
    window: u32,
    caller: u32,
    packet: &mut EncodedPacket,
) -> bool
    ensures answer { WritesDue phase window caller buffer.now (texts (given result packet.new)) }
    ensures packet { result ≡ true → IsPacketText (bytes_of packet.new) }
    ensures same { result ≡ false → packet.new ≡ packet.old }
{
    match next_in(buffer, phase, window) {
        Some(out) => write(out, caller, packet),
        None => false,
    }
}

/// Writes the data packet that is due in this phase, for this flow window in packets, and records that it was sent.
/// Returns false, with `packet` unchanged, if none is due. One copy of the payload.
#[inline(always)]
pub fn media(
    packet: &mut EncodedPacket,
    buffer: &mut SendBuf,
    phase: Phase,
    window: u32,
    caller: u32,
) -> bool
    ensures stands { Becomes buffer.old buffer.new (λ initial r. after_next phase window r) }
    ensures answer { WritesDue phase window caller buffer.old (texts (given result packet.new)) }
    ensures packet { result ≡ true → IsPacketText (bytes_of packet.new) }
    ensures same { result ≡ false → packet.new ≡ packet.old }
{
    let written = write_due(buffer, phase, window, caller, packet);
    note_sent(buffer, phase, window);
    written
}
