//! Computed examples of reception: across the wrap of sequence numbers, after a gap, and after drop requests.

ghost use Rattle.std.specs.Prelude.{◌<◌, ◌≤◌, length};

mod plain;
mod random;

use crate::{Put, RecvBuf};
use srt_types::{PayloadRef, Seq31};
use std::test::Fail;

fn number(word: u32) -> Result<Seq31, Fail> {
    match Seq31::new(word) {
        Some(number) => Ok(number),
        None => Err(Fail::from("a word with its top bit set")),
    }
}

fn buffer(rt: &HostRuntime, initial: u32) -> Result<RecvBuf, Fail> {
    let mut buffer = RecvBuf::open(rt.alloc(), 32)?;
    buffer.start(number(initial)?);
    Ok(buffer)
}

/// Whether these bytes are due; if so, marks them as delivered.
fn is_given(buffer: &mut RecvBuf, now: u32, bytes: &[u8]) -> bool {
    let now = u64::from(now);
    let is_due = match buffer.next_due(now, 64) {
        Some(payload) => payload == bytes,
        None => false,
    };
    buffer.note_delivered(now, 64) && is_due
}

/// Puts a payload under a number.
fn put(buffer: &mut RecvBuf, word: u32, due: i64, payload: &[u8]) -> Result<Put, Fail>
    requires some { 0 < length payload.now }
    requires most { length payload.now ≤ 1456 }
{
    let payload = PayloadRef { bytes: payload };
    Ok(buffer.put(number(word)?, due, payload))
}

fn gives_nothing(buffer: &mut RecvBuf, now: u32, room: u32) -> bool {
    let now = u64::from(now);
    buffer.next_due(now, room).is_none() && !buffer.note_delivered(now, room)
}

#[test]
fn a_window_takes_each_number_once(rt: HostRuntime) -> Result<(), Fail> {
    let mut buffer = buffer(&rt, 7)?;
    assert_eq!(rt; put(&mut buffer, 38, 5, &[1])?, Put::New);
    assert_eq!(rt; put(&mut buffer, 39, 5, &[2])?, Put::Outside);
    assert_eq!(rt; put(&mut buffer, 6, 5, &[2])?, Put::Outside);
    assert_eq!(rt; put(&mut buffer, 38, 5, &[2])?, Put::Repeat);
    assert_eq!(rt; buffer.width(), 32);
    assert_eq!(rt; buffer.front().get(), 7);
    assert_eq!(rt; buffer.top().get(), 39);
    assert_eq!(rt; buffer.ack_point().get(), 7);
    assert_eq!(rt; buffer.available(), 32);
    assert!(rt; buffer.waiting());
    assert!(rt; is_given(&mut buffer, 5, &[1]));
    assert_eq!(rt; buffer.front().get(), 39);
    assert!(rt; !buffer.waiting());
    Ok(())
}

#[test]
fn numbers_go_round(rt: HostRuntime) -> Result<(), Fail> {
    let mut buffer = buffer(&rt, 0x7fff_ffff)?;
    assert_eq!(rt; put(&mut buffer, 0x1e, 9, &[3])?, Put::New);
    assert_eq!(rt; put(&mut buffer, 0x1f, 9, &[3])?, Put::Outside);
    assert_eq!(rt; put(&mut buffer, 0x7fff_ffff, 9, &[1])?, Put::New);
    assert_eq!(rt; put(&mut buffer, 0, 9, &[2])?, Put::New);
    assert_eq!(rt; buffer.ack_point().get(), 1);
    assert_eq!(rt; buffer.available(), 30);
    let runs = buffer.runs(buffer.front());
    assert_eq!(rt; runs.len(), 1);
    assert_eq!(rt; (runs[0].0.get(), runs[0].1.get()), (1, 0x1d));
    assert!(rt; is_given(&mut buffer, 9, &[1]));
    assert!(rt; is_given(&mut buffer, 9, &[2]));
    assert_eq!(rt; buffer.front().get(), 1);
    Ok(())
}

#[test]
fn a_packet_behind_a_gap_waits_for_its_moment(rt: HostRuntime) -> Result<(), Fail> {
    let mut buffer = buffer(&rt, 7)?;
    assert_eq!(rt; put(&mut buffer, 9, 20, &[9, 9])?, Put::New);
    assert_eq!(rt; put(&mut buffer, 7, 10, &[7])?, Put::New);
    assert!(rt; gives_nothing(&mut buffer, 9, 64));
    assert!(rt; gives_nothing(&mut buffer, 20, 0));
    assert!(rt; is_given(&mut buffer, 10, &[7]));
    assert!(rt; gives_nothing(&mut buffer, 19, 64));
    let runs = buffer.runs(buffer.front());
    assert_eq!(rt; runs.len(), 1);
    assert_eq!(rt; (runs[0].0.get(), runs[0].1.get()), (8, 8));
    assert_eq!(rt; buffer.runs(number(9)?).len(), 0);
    assert_eq!(rt; buffer.runs(number(41)?).len(), 0);
    assert!(rt; is_given(&mut buffer, 20, &[9, 9]));
    assert_eq!(rt; buffer.front().get(), 10);
    assert_eq!(rt; buffer.runs(buffer.front()).len(), 0);
    assert_eq!(rt; buffer.available(), 32);
    assert!(rt; gives_nothing(&mut buffer, 21, 64));
    Ok(())
}

#[test]
fn payloads_that_are_due_come_in_order(rt: HostRuntime) -> Result<(), Fail> {
    let mut buffer = buffer(&rt, 7)?;
    assert_eq!(rt; put(&mut buffer, 7, 1, &[7, 7])?, Put::New);
    assert_eq!(rt; put(&mut buffer, 8, 1, &[8])?, Put::New);
    assert_eq!(rt; put(&mut buffer, 9, 1, &[9])?, Put::New);
    assert_eq!(rt; put(&mut buffer, 10, 2, &[10, 10])?, Put::New);
    for wanted in [&[7, 7][..], &[8][..], &[9][..]] {
        assert!(rt; is_given(&mut buffer, 1, wanted));
    }
    assert!(rt; gives_nothing(&mut buffer, 1, 64));
    assert!(rt; gives_nothing(&mut buffer, 2, 0));
    assert!(rt; is_given(&mut buffer, 2, &[10, 10]));
    Ok(())
}

#[test]
fn a_payload_passed_over_is_gone(rt: HostRuntime) -> Result<(), Fail> {
    let mut buffer = buffer(&rt, 7)?;
    assert_eq!(rt; put(&mut buffer, 8, 20, &[8])?, Put::New);
    assert_eq!(rt; put(&mut buffer, 10, 30, &[10])?, Put::New);
    assert!(rt; !buffer.note_delivered(19, 64));
    assert!(rt; !buffer.note_delivered(20, 0));
    assert_eq!(rt; buffer.front().get(), 7);
    assert!(rt; buffer.note_delivered(20, 1));
    assert_eq!(rt; buffer.front().get(), 9);
    assert!(rt; !buffer.note_delivered(29, 1));
    assert!(rt; is_given(&mut buffer, 30, &[10]));
    assert!(rt; !buffer.note_delivered(30, 1));
    Ok(())
}

#[test]
fn what_is_dropped_may_still_come(rt: HostRuntime) -> Result<(), Fail> {
    let mut buffer = buffer(&rt, 7)?;
    assert_eq!(rt; put(&mut buffer, 9, 1, &[9])?, Put::New);
    buffer.dropped(number(8)?, number(11)?);
    assert_eq!(rt; buffer.ack_point().get(), 7);
    assert_eq!(rt; put(&mut buffer, 8, 1, &[8])?, Put::New);
    assert!(rt; is_given(&mut buffer, 1, &[8]));
    assert!(rt; is_given(&mut buffer, 1, &[9]));
    // 10 and 11 were dropped
    assert_eq!(rt; buffer.front().get(), 12);
    buffer.dropped(number(5)?, number(12)?);
    assert_eq!(rt; buffer.front().get(), 13);
    // a range whose last number is 2^30 past its first, and one after the window
    buffer.dropped(number(13)?, number(13 + (1 << 30))?);
    buffer.dropped(number(45)?, number(46)?);
    assert_eq!(rt; buffer.front().get(), 13);
    buffer.dropped(number(0)?, number(1 << 29)?);
    assert_eq!(rt; buffer.front().get(), 45);
    Ok(())
}

#[test]
fn at_most_32_runs(rt: HostRuntime) -> Result<(), Fail> {
    let mut buffer = RecvBuf::open(rt.alloc(), 128)?;
    buffer.start(number(0x7fff_fff0)?);
    for k in 0..40 {
        assert_eq!(rt;
            buffer.put(
                number(0x7fff_fff0)?.add(2 * k + 1),
                1,
                PayloadRef { bytes: &[0] }
            ),
            Put::New
        );
    }
    let runs = buffer.runs(buffer.front());
    assert_eq!(rt; runs.len(), 32);
    assert_eq!(rt;
        (runs[0].0.get(), runs[0].1.get()),
        (0x7fff_fff0, 0x7fff_fff0)
    );
    assert_eq!(rt; (runs[31].0.get(), runs[31].1.get()), (46, 46));
    Ok(())
}
