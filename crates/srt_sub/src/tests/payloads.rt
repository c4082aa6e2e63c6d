//! The index of a data packet's payload.

use super::turns::{Turn, other};
use super::{LOST, hears, media, media_again, number, opening, unstarted};
use crate::Emitted;
use srt_samples::{Loss, drop_request, keep_alive, light_ack, nak};
use srt_types::Mode;
use std::test::Fail;

/// Loss list of two packets, between which the sequence numbers wrap.
const WRAPPED: [Loss; 1] = [Loss::Range(0x7fff_ffff, 0)];

#[test]
fn an_index_stays_with_its_payload(rt: HostRuntime) -> Result<(), Fail> {
    let first = media(0x7fff_ffff, 1, 500_000);
    // the sequence number after 2^31 - 1 is 0
    let second = media(0, 2, 500_000).payload(b"b");
    let third = media(1, 3, 800_000).payload(b"c");
    let turns = [
        (4_000_000, Turn::Start(Mode::Live, 0x7fff_ffff)),
        (4_000_000, Turn::Queued(0)),
        (4_500_000, Turn::Feed(b'a')),
        (4_500_000, Turn::Feed(b'b')),
        (4_500_000, Turn::Queued(2)),
        (4_500_000, Turn::Wrote(Emitted::Data(0), first)),
        (4_500_000, Turn::Queued(2)),
        (4_500_000, Turn::Wrote(Emitted::Data(1), second)),
        (4_500_000, Turn::Ends),
        // sent again, also after the first one is acknowledged
        (4_600_000, Turn::Hear(nak(&WRAPPED))),
        (
            4_600_000,
            Turn::Wrote(Emitted::Data(0), media_again(0x7fff_ffff, 1, 500_000)),
        ),
        (4_700_000, Turn::Hear(light_ack(0))),
        (
            4_700_000,
            Turn::Wrote(Emitted::Data(1), second.flags(0xe400_0002)),
        ),
        (4_700_000, Turn::Ends),
        // and the next payload
        (4_700_000, Turn::Hear(light_ack(1))),
        (4_800_000, Turn::Feed(b'c')),
        (4_800_000, Turn::Queued(3)),
        (4_800_000, Turn::Wrote(Emitted::Data(2), third)),
        (4_800_000, Turn::Ends),
    ];
    assert_eq!(rt; other(rt.alloc(), &turns)?, None);
    Ok(())
}

#[test]
fn packets_without_a_payload(rt: HostRuntime) -> Result<(), Fail> {
    let dropped = drop_request(1, 9, 9).stamp(2_000_001);
    let second = media(10, 2, 2_000_001).payload(b"b");
    let alive = keep_alive().stamp(3_000_001);
    let turns = [
        (4_000_000, Turn::Start(Mode::Live, 9)),
        (5_000_000, Turn::Feed(b'a')),
        (
            5_000_000,
            Turn::Wrote(Emitted::Data(0), media(9, 1, 1_000_000)),
        ),
        (5_000_000, Turn::Ends),
        // the payload has expired, and a new one is queued
        (6_000_001, Turn::Hear(nak(&LOST))),
        (6_000_001, Turn::Feed(b'b')),
        (6_000_001, Turn::Wrote(Emitted::DropRequest, dropped)),
        (6_000_001, Turn::Wrote(Emitted::Data(1), second)),
        (6_000_001, Turn::Ends),
        // nothing is sent for a second
        (6_100_000, Turn::Hear(light_ack(11))),
        (7_000_000, Turn::Ends),
        (7_000_001, Turn::Wrote(Emitted::KeepAlive, alive)),
        (7_000_001, Turn::Ends),
        (7_000_001, Turn::Queued(2)),
        // another session counts from 0 again
        (7_000_001, Turn::Start(Mode::Live, 700)),
        (7_000_001, Turn::Queued(0)),
        (7_000_001, Turn::Feed(b'a')),
        (7_000_001, Turn::Wrote(Emitted::Data(0), media(700, 1, 0))),
        (7_000_001, Turn::Ends),
    ];
    assert_eq!(rt; other(rt.alloc(), &turns)?, None);
    Ok(())
}

#[test]
fn indexes_go_on(rt: HostRuntime) -> Result<(), Fail> {
    let mut trial = unstarted(rt.alloc())?;
    let initial = number(0x7fff_f000)?;
    trial.session.start(opening(4_000_000, 0x7fff_f000)?);
    // more than a window's 8192 payloads, and a sequence number that wraps after 4096 of them
    for count in 0..9000u32 {
        let fed = trial.session.feed(b"a", 4_500_000);
        assert!(rt; fed);
        let told = trial
            .session
            .emit_indexed(4_500_000, true, &mut trial.place);
        assert_eq!(rt; told, Some(Emitted::Data(u64::from(count))));
        let over = trial
            .session
            .emit_indexed(4_500_000, true, &mut trial.place);
        assert!(rt; over.is_none());
        let acked = light_ack(initial.add(count + 1).get());
        assert!(rt; hears(&mut trial, acked, 4_500_000)?);
    }
    assert_eq!(rt; trial.session.queued_payloads(), 9000);
    Ok(())
}
