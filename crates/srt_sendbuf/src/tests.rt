//! Computed examples of queueing, sending, loss, acknowledgement and expiry.

mod plain;
mod random;

use crate::SendBuf;
use srt_loss::read;
use srt_types::Seq31;
use std::test::Fail;

#[derive(Clone, Copy)]
enum Step {
    Start(u32),
    /// A payload of this one byte, at this time.
    Queue(u8, u64),
    Due(u32),
    Ack(u32),
    Grows(u32),
    Expire(i64),
    /// A loss list of these two words.
    Lose(u32, u32),
    LoseAll,
    Room,
    InFlight,
    AnyLost,
}

#[derive(Clone, Copy, Debug, PartialEq, Eq)]
enum Answer {
    Nothing,
    Full,
    Count(u32),
    Is(bool),
    /// Sequence number, message number, whether it is sent again, queueing time, and the one byte.
    Packet(u32, u32, bool, u64, u8),
    /// A drop request: the first number, the last, and the message number.
    Gone(u32, u32, u32),
}

fn number(word: u32) -> Result<Seq31, Fail> {
    match Seq31::new(word) {
        Some(number) => Ok(number),
        None => Err(Fail::from("a word with its top bit set")),
    }
}

fn queued(buffer: &mut SendBuf, byte: u8, now: u64) -> Answer {
    match buffer.queue(&[byte], now) {
        Ok(()) => Answer::Nothing,
        Err(_) => Answer::Full,
    }
}

/// Returns the packet that is due, as an answer.
fn next(buffer: &SendBuf, window: u32) -> Result<Answer, Fail> {
    match buffer.next_due(window) {
        Some(out) => match out.payload {
            [byte] => Ok(Answer::Packet(
                out.number.get(),
                out.message.get(),
                out.again,
                out.origin,
                *byte,
            )),
            _ => Err(Fail::from("not the payload that was queued")),
        },
        None => Ok(Answer::Nothing),
    }
}

/// Returns the packet that is due, and marks it as sent.
fn due(buffer: &mut SendBuf, window: u32) -> Result<Answer, Fail> {
    let answer = next(buffer, window)?;
    buffer.note_sent(window);
    Ok(answer)
}

fn lost(buffer: &mut SendBuf, first: u32, last: u32) -> Result<Answer, Fail> {
    let a = first.to_be_bytes();
    let b = last.to_be_bytes();
    let text = [a[0], a[1], a[2], a[3], b[0], b[1], b[2], b[3]];
    let Ok(losses) = read(&text) else {
        return Err(Fail::from("a loss list"));
    };
    match buffer.lose(&losses) {
        Some(run) => Ok(Answer::Gone(run.first.get(), run.last.get(), run.message.get())),
        None => Ok(Answer::Nothing),
    }
}

fn taken(buffer: &mut SendBuf, step: Step) -> Result<Answer, Fail> {
    match step {
        Step::Start(initial) => {
            buffer.start(number(initial)?);
            Ok(Answer::Nothing)
        }
        Step::Queue(byte, now) => Ok(queued(buffer, byte, now)),
        Step::Due(window) => due(buffer, window),
        Step::Ack(word) => Ok(Answer::Is(buffer.ack(number(word)?))),
        Step::Grows(word) => Ok(Answer::Is(buffer.grows(number(word)?))),
        Step::Expire(before) => Ok(Answer::Count(buffer.expire(before))),
        Step::Lose(first, last) => lost(buffer, first, last),
        Step::LoseAll => {
            buffer.lose_all();
            Ok(Answer::Nothing)
        }
        Step::Room => Ok(Answer::Count(buffer.room())),
        Step::InFlight => Ok(Answer::Count(buffer.in_flight())),
        Step::AnyLost => Ok(Answer::Is(buffer.any_lost())),
    }
}

/// Returns the index of the first test vector whose result differs from the expected one.
fn other(buffer: &mut SendBuf, rows: &[(Step, Answer)]) -> Result<Option<usize>, Fail> {
    for at in 0..rows.len() {
        let (step, expected) = rows[at];
        if taken(buffer, step)? != expected {
            return Ok(Some(at));
        }
    }
    Ok(None)
}

#[test]
fn one_packet(rt: HostRuntime) -> Result<(), Fail> {
    let mut buffer = SendBuf::open(rt.alloc(), 32)?;
    let rows = [
        (Step::Start(9), Answer::Nothing),
        (Step::Room, Answer::Count(32)),
        (Step::Due(8192), Answer::Nothing),
        (Step::Queue(0x61, 1_000_000), Answer::Nothing),
        (Step::Room, Answer::Count(31)),
        (Step::Due(0), Answer::Nothing),
        (
            Step::Due(8192),
            Answer::Packet(9, 1, false, 1_000_000, 0x61),
        ),
        (Step::InFlight, Answer::Count(1)),
        (Step::Due(8192), Answer::Nothing),
        (Step::Lose(9, 9), Answer::Nothing),
        (Step::AnyLost, Answer::Is(true)),
        // The flow window holds back only new packets.
        (Step::Due(0), Answer::Packet(9, 1, true, 1_000_000, 0x61)),
        (Step::AnyLost, Answer::Is(false)),
        (Step::Expire(1_000_000), Answer::Count(0)),
        (Step::Lose(9, 9), Answer::Nothing),
        (Step::Expire(1_000_001), Answer::Count(1)),
        (Step::AnyLost, Answer::Is(false)),
        (Step::Room, Answer::Count(32)),
        (Step::Lose(9, 9), Answer::Gone(9, 9, 1)),
        // After its acknowledgement no drop request contains it.
        (Step::Grows(10), Answer::Is(true)),
        (Step::Ack(10), Answer::Is(true)),
        (Step::Lose(9, 9), Answer::Nothing),
    ];
    assert_eq!(rt; other(&mut buffer, &rows)?, None);
    Ok(())
}

#[test]
fn acknowledgements_and_losses(rt: HostRuntime) -> Result<(), Fail> {
    let mut buffer = SendBuf::open(rt.alloc(), 32)?;
    let rows = [
        (Step::Start(9), Answer::Nothing),
        (Step::Queue(1, 5), Answer::Nothing),
        (Step::Queue(2, 5), Answer::Nothing),
        (Step::Queue(3, 6), Answer::Nothing),
        (Step::Queue(4, 7), Answer::Nothing),
        (Step::Due(2), Answer::Packet(9, 1, false, 5, 1)),
        (Step::Due(2), Answer::Packet(10, 2, false, 5, 2)),
        (Step::Due(2), Answer::Nothing),
        (Step::Due(3), Answer::Packet(11, 3, false, 6, 3)),
        // 9 to 11 are in flight: an ACK's number may be 9 to 12.
        (Step::Ack(8), Answer::Is(false)),
        (Step::Ack(13), Answer::Is(false)),
        (Step::Grows(13), Answer::Is(false)),
        (Step::Grows(9), Answer::Is(false)),
        (Step::Ack(9), Answer::Is(true)),
        // The list has the greater number first.
        (Step::Lose(11, 10), Answer::Nothing),
        (Step::Due(0), Answer::Packet(10, 2, true, 5, 2)),
        (Step::Due(0), Answer::Packet(11, 3, true, 6, 3)),
        (Step::Due(0), Answer::Nothing),
        (Step::LoseAll, Answer::Nothing),
        // An acknowledged number is no longer lost.
        (Step::Ack(11), Answer::Is(true)),
        (Step::Ack(10), Answer::Is(false)),
        (Step::Room, Answer::Count(30)),
        (Step::Due(8192), Answer::Packet(11, 3, true, 6, 3)),
        (Step::Due(8192), Answer::Packet(12, 4, false, 7, 4)),
        // A range of 2^30 numbers.
        (Step::Lose(0x8000_0000, 0x3fff_ffff), Answer::Nothing),
        (Step::Due(0), Answer::Packet(11, 3, true, 6, 3)),
        (Step::Due(0), Answer::Packet(12, 4, true, 7, 4)),
    ];
    assert_eq!(rt; other(&mut buffer, &rows)?, None);
    Ok(())
}

#[test]
fn unsent_packets_expire(rt: HostRuntime) -> Result<(), Fail> {
    let mut buffer = SendBuf::open(rt.alloc(), 32)?;
    let rows = [
        (Step::Start(0x7fff_ffff), Answer::Nothing),
        (Step::Queue(1, 10), Answer::Nothing),
        (Step::Queue(2, 11), Answer::Nothing),
        (Step::Queue(3, 12), Answer::Nothing),
        (Step::Queue(4, 13), Answer::Nothing),
        (
            Step::Due(8192),
            Answer::Packet(0x7fff_ffff, 1, false, 10, 1),
        ),
        (Step::Expire(-1), Answer::Count(0)),
        (Step::Expire(13), Answer::Count(3)),
        (Step::InFlight, Answer::Count(0)),
        // 0 was never sent; the drop request contains all expired numbers.
        (Step::Lose(0, 0), Answer::Gone(0x7fff_ffff, 1, 1)),
        (Step::Lose(2, 2), Answer::Nothing),
        (Step::Due(8192), Answer::Packet(2, 4, false, 13, 4)),
        // An ACK below the front still acknowledges more.
        (Step::Grows(1), Answer::Is(true)),
        (Step::Ack(1), Answer::Is(true)),
        (Step::Ack(0), Answer::Is(false)),
        (Step::Lose(0xffff_fff0, 2), Answer::Gone(1, 1, 3)),
        (Step::Due(0), Answer::Packet(2, 4, true, 13, 4)),
        (Step::Start(7), Answer::Nothing),
        (Step::Room, Answer::Count(32)),
        (Step::InFlight, Answer::Count(0)),
        (Step::Ack(7), Answer::Is(true)),
    ];
    assert_eq!(rt; other(&mut buffer, &rows)?, None);
    Ok(())
}

#[test]
fn full(rt: HostRuntime) -> Result<(), Fail> {
    let mut buffer = SendBuf::open(rt.alloc(), 32)?;
    for byte in 0..32 {
        assert_eq!(rt; queued(&mut buffer, byte, 5), Answer::Nothing);
    }
    assert_eq!(rt; queued(&mut buffer, 32, 5), Answer::Full);
    Ok(())
}
