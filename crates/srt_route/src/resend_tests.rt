//! What is sent again to a subscriber without a NAK, over a whole route: to one that sends periodic NAKs, to any other,
//! and on a route whose callers follow the draft.

use crate::ledger_tests::{SLOT_0, SLOT_1, drain, give, tell};
use crate::rules_tests::{OF_LIBSRT, media, ruled};
use crate::tests::{FIRST, PUBLISHES, PUBLISHES_FILES, REQUESTS, REQUESTS_FILES, peer};
use crate::{Reply, Route, Traffic};
use srt_samples::{
    Acknowledged, Block, Caller, Loss, Offer, Sample, conclusion, data_packet, first_difference,
    full_ack, keep_alive, light_ack, nak,
};
use srt_types::{Item, Mode, Rules};
use std::process::Abort;
use std::test::Fail;

/// A subscriber without the flag PERIODICNAK.
const REQUESTS_WITHOUT: [Block<'static>; 2] = [
    Block::Request(Offer {
        version: 0x1_0500,
        flags: 0xaf,
        receiver_ms: 120,
        sender_ms: 120,
    }),
    Block::StreamId("studio"),
];

const HUNDRED: Caller = Caller {
    id: 2,
    initial: 100,
    mtu: 1500,
    window: 8192,
    cookie: 0x1234_5678,
};

/// The packets that were lost: 102 and 103.
const TWO_LOST: [Loss; 1] = [Loss::Range(102, 103)];

/// A packet of the subscriber in slot 1.
fn hear(
    rt: &(impl AllocGlobal + Abort),
    route: &mut Route,
    moment: u64,
    sample: Sample<'_>,
) -> Result<(), Fail> {
    tell(rt, route, moment, peer(5001), sample.to(SLOT_1))
}

/// A payload of the publisher in slot 0, which opened at 0.8 s: it is due 0.92 s after its timestamp.
fn feed(
    rt: &(impl AllocGlobal + Abort),
    route: &mut Route,
    moment: u64,
    number: u32,
    stamp: u32,
) -> Result<(), Fail> {
    tell(rt, route, moment, peer(5000), media(SLOT_0, number, stamp))
}

/// An ACK of everything before this number, with a round-trip time and its variance in microseconds.
fn acknowledges<'a>(point: u32, rtt: u32, variance: u32) -> Sample<'a> {
    full_ack(
        1,
        Acknowledged {
            point,
            rtt,
            variance,
            available: 8192,
        },
    )
}

/// Asserts how many data packets the subscriber in slot 1 was sent, for the first time and again.
fn assert_sent(
    rt: &(impl AllocGlobal + Abort),
    route: &Route,
    sent: (u64, u64),
) -> Result<(), Fail> {
    let view = route.session(1).ok_or("a session in slot 1")?;
    match view.traffic {
        Traffic::Sent(x) => assert_eq!(rt; (x.sendings.fresh, x.sendings.resent), sent),
        Traffic::Received(_) => return Err(Fail::from("a subscriber")),
    }
    Ok(())
}

/// The same after a tick at this time.
fn assert_tick(
    rt: &(impl AllocGlobal + Abort),
    route: &mut Route,
    moment: u64,
    sent: (u64, u64),
) -> Result<(), Fail> {
    give(rt, route, &Item::Tick { moment })?;
    assert_sent(rt, route, sent)
}

/// A publisher in slot 0 and a subscriber with these blocks in slot 1, which acknowledged the number 100 with a
/// round-trip time of 1 ms and a variance of 0.5 ms. So the timeout is 23 ms.
fn subscribed(
    rt: &(impl AllocGlobal + Abort),
    rules: Rules,
    wants: &[Block<'_>],
) -> Result<Route, Fail> {
    let mut route = ruled(rt.alloc(), Mode::Live, 5, rules)?;
    let publishes = conclusion(FIRST, &PUBLISHES);
    tell(rt, &mut route, 800_000, peer(5000), publishes)?;
    let requests = conclusion(HUNDRED, wants);
    tell(rt, &mut route, 1_000_000, peer(5001), requests)?;
    feed(rt, &mut route, 1_010_000, 5, 100_000)?;
    assert_tick(rt, &mut route, 1_020_000, (1, 0))?;
    hear(rt, &mut route, 1_030_000, acknowledges(101, 1_000, 500))?;
    Ok(route)
}

/// Asserts that the first reply to the subscriber has these bytes, and drops the others.
fn assert_first(
    rt: &(impl AllocGlobal + Abort),
    route: &mut Route,
    wanted: &[u8],
) -> Result<(), Fail> {
    let mut out = [0u8; 1472];
    let mut place = Box::new(rt.alloc(), Reply::blank())?;
    for _ in 0..100 {
        if !route.next_reply(&mut place) {
            return Err(Fail::from("a reply to the subscriber"));
        }
        if place.peer == peer(5001) {
            let len = place.packet.copy_to(&mut out);
            assert_eq!(rt; first_difference(&out[..len], wanted), None);
            return drain(rt, route);
        }
    }
    Err(Fail::from("a reply to the subscriber"))
}

/// A subscriber that sends periodic NAKs is sent everything in flight once after half its delay, until an ACK
/// acknowledges more.
#[test]
fn one_that_reports_is_sent_all_again_once(rt: HostRuntime) -> Result<(), Fail> {
    let mut route = subscribed(&rt, OF_LIBSRT, &REQUESTS)?;
    feed(&rt, &mut route, 1_040_000, 6, 180_000)?;
    feed(&rt, &mut route, 1_040_000, 7, 180_000)?;
    feed(&rt, &mut route, 1_040_000, 8, 180_000)?;
    assert_tick(&rt, &mut route, 1_100_000, (4, 0))?;
    assert_tick(&rt, &mut route, 1_159_999, (4, 0))?;
    let wanted = data_packet(101)
        .flags(0xe400_0002)
        .stamp(0x1_86a0)
        .to(2)
        .payload(b"hi")
        .bytes(rt.alloc())?;
    if route.waits() {
        return Err(Fail::from("no reply that waits"));
    }
    let _ = route.step(&Item::Tick { moment: 1_160_000 });
    assert_first(&rt, &mut route, &wanted)?;
    assert_sent(&rt, &route, (4, 3))?;
    hear(&rt, &mut route, 1_300_000, keep_alive())?;
    hear(&rt, &mut route, 1_400_000, light_ack(101))?;
    feed(&rt, &mut route, 1_590_000, 9, 780_000)?;
    assert_tick(&rt, &mut route, 1_599_999, (4, 3))?;
    hear(&rt, &mut route, 1_600_000, light_ack(102))?;
    assert_tick(&rt, &mut route, 1_659_999, (4, 3))?;
    assert_tick(&rt, &mut route, 1_660_000, (4, 5))?;
    hear(&rt, &mut route, 1_670_000, nak(&TWO_LOST))?;
    assert_sent(&rt, &route, (4, 7))?;
    assert_tick(&rt, &mut route, 1_700_000, (5, 7))?;
    assert_tick(&rt, &mut route, 1_899_999, (5, 7))?;
    hear(
        &rt,
        &mut route,
        1_900_000,
        acknowledges(104, 100_000, 10_000),
    )?;
    assert_tick(&rt, &mut route, 2_059_999, (5, 7))?;
    assert_tick(&rt, &mut route, 2_060_000, (5, 8))
}

/// A subscriber that was heard last a second ago is sent nothing again, until a packet arrives: also one of this event.
#[test]
fn a_silent_one_is_sent_nothing_again(rt: HostRuntime) -> Result<(), Fail> {
    let mut route = subscribed(&rt, OF_LIBSRT, &REQUESTS)?;
    feed(&rt, &mut route, 4_850_000, 6, 3_980_000)?;
    assert_tick(&rt, &mut route, 4_900_000, (2, 0))?;
    hear(&rt, &mut route, 5_000_000, light_ack(102))?;
    feed(&rt, &mut route, 5_900_000, 7, 5_019_999)?;
    feed(&rt, &mut route, 5_900_000, 8, 5_020_000)?;
    assert_tick(&rt, &mut route, 5_939_999, (3, 0))?;
    assert_tick(&rt, &mut route, 5_940_000, (4, 0))?;
    assert_tick(&rt, &mut route, 5_999_999, (4, 0))?;
    assert_tick(&rt, &mut route, 6_000_000, (4, 0))?;
    hear(&rt, &mut route, 6_000_001, keep_alive())?;
    assert_sent(&rt, &route, (4, 2))
}

/// A subscriber without the flag is sent everything in flight again and again, each time after twice as long.
#[test]
fn one_that_reports_nothing_is_sent_all_again_more_rarely(rt: HostRuntime) -> Result<(), Fail> {
    let mut route = subscribed(&rt, OF_LIBSRT, &REQUESTS_WITHOUT)?;
    feed(&rt, &mut route, 1_040_000, 6, 180_000)?;
    feed(&rt, &mut route, 1_040_000, 7, 180_000)?;
    assert_tick(&rt, &mut route, 1_100_000, (3, 0))?;
    assert_tick(&rt, &mut route, 1_122_999, (3, 0))?;
    assert_tick(&rt, &mut route, 1_123_000, (3, 2))?;
    feed(&rt, &mut route, 1_150_000, 8, 250_000)?;
    assert_tick(&rt, &mut route, 1_168_999, (3, 2))?;
    assert_tick(&rt, &mut route, 1_169_000, (3, 4))?;
    assert_tick(&rt, &mut route, 1_170_000, (4, 4))?;
    assert_tick(&rt, &mut route, 1_261_999, (4, 4))?;
    assert_tick(&rt, &mut route, 1_262_000, (4, 7))?;
    hear(&rt, &mut route, 1_262_001, light_ack(102))?;
    assert_tick(&rt, &mut route, 1_285_000, (4, 7))?;
    assert_tick(&rt, &mut route, 1_285_001, (4, 9))
}

/// On a route whose callers follow the draft, everything in flight is sent again at each timeout.
#[test]
fn by_the_draft_all_is_sent_again_at_each_timeout(rt: HostRuntime) -> Result<(), Fail> {
    let mut route = subscribed(&rt, Rules::DRAFT, &REQUESTS)?;
    feed(&rt, &mut route, 1_040_000, 6, 180_000)?;
    assert_tick(&rt, &mut route, 1_100_000, (2, 0))?;
    assert_tick(&rt, &mut route, 1_122_999, (2, 0))?;
    assert_tick(&rt, &mut route, 1_123_000, (2, 1))?;
    assert_tick(&rt, &mut route, 1_146_000, (2, 2))?;
    // The last packet of the subscriber arrived a second ago.
    assert_tick(&rt, &mut route, 2_030_000, (2, 3))
}

/// In buffer mode the flag makes no difference.
#[test]
fn in_buffer_mode_all_is_sent_again_more_rarely(rt: HostRuntime) -> Result<(), Fail> {
    let mut route = ruled(rt.alloc(), Mode::Buffer, 5, OF_LIBSRT)?;
    let publishes = conclusion(FIRST, &PUBLISHES_FILES);
    tell(&rt, &mut route, 1_000_000, peer(5000), publishes)?;
    let requests = conclusion(HUNDRED, &REQUESTS_FILES);
    tell(&rt, &mut route, 1_000_000, peer(5001), requests)?;
    feed(&rt, &mut route, 1_010_000, 5, 10_000)?;
    hear(&rt, &mut route, 1_030_000, acknowledges(101, 1_000, 500))?;
    feed(&rt, &mut route, 1_100_000, 6, 100_000)?;
    assert_tick(&rt, &mut route, 1_122_999, (2, 0))?;
    assert_tick(&rt, &mut route, 1_123_000, (2, 1))?;
    assert_tick(&rt, &mut route, 1_168_999, (2, 1))?;
    assert_tick(&rt, &mut route, 1_169_000, (2, 2))
}
