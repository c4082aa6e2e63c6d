//! A publisher's clock that is off, over a whole route: which ACKACKs move the correction, and when a payload is due
//! after that.

use crate::ledger_tests::{SLOT_0, give, open, tell};
use crate::rules_tests::{OF_LIBSRT, media, ruled};
use crate::tests::{FIRST, PUBLISHES, PUBLISHES_FILES, REQUESTS, peer};
use crate::{Route, Traffic};
use srt_samples::{Block, ack_ack, conclusion};
use srt_types::{Item, Mode, Rules};
use std::process::Abort;
use std::test::Fail;

/// Returns the correction of the publisher's clock in slot 0, in microseconds; None if the clock isn't followed.
fn correction(route: &Route) -> Result<Option<i64>, Fail> {
    let view = route.session(0).ok_or("a session in slot 0")?;
    match view.traffic {
        Traffic::Received(x) => Ok(x.correction),
        Traffic::Sent(_) => Err(Fail::from("a publisher")),
    }
}

/// A data packet of the publisher in slot 0; more than 10 ms after the last Full ACK, the next one is sent at once.
fn hear(
    rt: &(impl AllocGlobal + Abort),
    route: &mut Route,
    moment: u64,
    number: u32,
    stamp: u32,
) -> Result<(), Fail> {
    tell(rt, route, moment, peer(5000), media(SLOT_0, number, stamp))
}

/// The ACKACK of a Full ACK with this timestamp, and the correction after it.
fn confirm(
    rt: &(impl AllocGlobal + Abort),
    route: &mut Route,
    moment: u64,
    confirmed: (u32, u32),
    wanted: i64,
) -> Result<(), Fail> {
    let (number, stamp) = confirmed;
    let sample = ack_ack(number).stamp(stamp).to(SLOT_0);
    tell(rt, route, moment, peer(5000), sample)?;
    assert_eq!(rt; correction(route)?, Some(wanted));
    Ok(())
}

/// Asserts how many payloads were queued for the subscriber in slot 1 after a tick at this time.
fn assert_queued(
    rt: &(impl AllocGlobal + Abort),
    route: &mut Route,
    moment: u64,
    queued: u64,
) -> Result<(), Fail> {
    give(rt, route, &Item::Tick { moment })?;
    let view = route.session(1).ok_or("a session in slot 1")?;
    match view.traffic {
        Traffic::Sent(x) => assert_eq!(rt; x.counts.queued, queued),
        Traffic::Received(_) => return Err(Fail::from("a subscriber")),
    }
    Ok(())
}

/// The first window closes at 3.01 s with the lateness of the shortest round trip, 750 us; the second one at 4.11 s is
/// 950 us later, and the third one at 5.210999 s by more than 1000 ppm. A payload that arrives between the second and
/// the third one is due by the correction at its arrival.
#[test]
fn a_slow_clock_is_followed(rt: HostRuntime) -> Result<(), Fail> {
    let mut route = ruled(rt.alloc(), Mode::Live, 5, OF_LIBSRT)?;
    open(&rt, &mut route, 5000, &PUBLISHES)?;
    hear(&rt, &mut route, 2_000_000, 5, 1_000_000)?;
    confirm(&rt, &mut route, 2_010_000, (1, 0xf_53d4), 0)?;
    hear(&rt, &mut route, 2_500_000, 6, 1_500_000)?;
    confirm(&rt, &mut route, 2_508_000, (2, 0x16_f012), 0)?;
    hear(&rt, &mut route, 2_980_000, 7, 1_980_000)?;
    hear(&rt, &mut route, 3_000_999, 8, 2_000_999)?;
    confirm(&rt, &mut route, 3_009_999, (4, 2_004_599), 0)?;
    confirm(&rt, &mut route, 3_010_000, (3, 5), 0)?;
    hear(&rt, &mut route, 3_100_000, 9, 2_100_000)?;
    confirm(&rt, &mut route, 3_110_000, (5, 2_103_750), 0)?;
    hear(&rt, &mut route, 4_100_000, 10, 3_100_000)?;
    confirm(&rt, &mut route, 4_110_000, (6, 0x2f_5a44), 950)?;
    let wants = conclusion(FIRST, &REQUESTS);
    tell(&rt, &mut route, 4_150_000, peer(5001), wants)?;
    hear(&rt, &mut route, 4_200_000, 11, 3_200_000)?;
    confirm(&rt, &mut route, 4_210_000, (7, 3_202_350), 950)?;
    hear(&rt, &mut route, 4_300_000, 12, 5_000_000)?;
    hear(&rt, &mut route, 5_200_999, 13, 4_200_999)?;
    confirm(&rt, &mut route, 5_210_999, (9, 4_185_049), 2_050)?;
    // Numbers 10 and 11 were queued; 12 is due now, and 13 waited for it.
    assert_queued(&rt, &mut route, 6_120_949, 2)?;
    assert_queued(&rt, &mut route, 6_120_950, 4)
}

/// Asserts that the clock of a publisher isn't followed.
fn assert_unfollowed(
    rt: &(impl AllocGlobal + Abort),
    mode: Mode,
    rules: Rules,
    publishes: &[Block<'_>],
) -> Result<(), Fail> {
    let mut route = ruled(rt.alloc(), mode, 5, rules)?;
    open(rt, &mut route, 5000, publishes)?;
    hear(rt, &mut route, 2_000_000, 5, 1_000_000)?;
    let sample = ack_ack(1).stamp(0xf_53d4).to(SLOT_0);
    tell(rt, &mut route, 2_010_000, peer(5000), sample)?;
    assert_eq!(rt; correction(&route)?, None);
    Ok(())
}

#[test]
fn by_the_draft_no_clock_is_followed(rt: HostRuntime) -> Result<(), Fail> {
    assert_unfollowed(&rt, Mode::Live, Rules::DRAFT, &PUBLISHES)?;
    assert_unfollowed(&rt, Mode::Buffer, OF_LIBSRT, &PUBLISHES_FILES)
}
