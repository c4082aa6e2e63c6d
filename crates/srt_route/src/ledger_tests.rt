//! What a route reports of ended sessions: each cause, in slots that are used again and with a standby; and its counts.

use crate::tests::{FIRST, PUBLISHES, PUBLISHES_A_STREAM, REQUESTS, SECOND, peer, studio};
use crate::{EndCause, EndedSession, Reply, Route, SessionView, Traffic};
use srt_hs::RefusalCode;
use srt_samples::{Block, Caller, Sample, conclusion, data_packet, shutdown};
use srt_types::{Item, Peer, Role};
use std::process::Abort;
use std::test::Fail;

/// The socket IDs of the first sessions in slots 0, 1 and 2, and of the second one in slot 0.
pub(crate) const SLOT_0: u32 = 0x10_0000;

pub(crate) const SLOT_1: u32 = 0x10_0001;

pub(crate) const SLOT_2: u32 = 0x10_0002;

const SLOT_0_AGAIN: u32 = 0x10_0100;

/// A data packet with this number, sent one millisecond after its conclusion.
fn media<'a>(number: u32) -> Sample<'a> {
    data_packet(number).stamp(1_000).to(SLOT_0).payload(b"hi")
}

/// Fetches all waiting replies, up to a hundred.
pub(crate) fn drain(rt: &(impl AllocGlobal + Abort), route: &mut Route) -> Result<(), Fail> {
    let mut place = Box::new(rt.alloc(), Reply::blank())?;
    for _ in 0..100 {
        let _ = route.next_reply(&mut place);
    }
    Ok(())
}

/// Offers a route this item, whose time is early, and drops its replies.
pub(crate) fn give(
    rt: &(impl AllocGlobal + Abort),
    route: &mut Route,
    item: &Item,
) -> Result<(), Fail> {
    let moment = match item {
        Item::Tick { moment } => *moment,
        Item::Close { moment } => *moment,
        Item::Datagram {
            peer: _,
            moment,
            head: _,
            body: _,
        } => *moment,
    };
    if route.waits() || moment > 1_000_000_000 {
        return Err(Fail::from("an early moment, and no reply that waits"));
    }
    let _ = route.step(item);
    drain(rt, route)
}

/// Offers a route these bytes from a peer at this time.
pub(crate) fn tell(
    rt: &(impl AllocGlobal + Abort),
    route: &mut Route,
    moment: u64,
    from: Peer,
    sample: Sample<'_>,
) -> Result<(), Fail> {
    let bytes = sample.bytes(rt.alloc())?;
    if bytes.len() < 16 {
        return Err(Fail::from("a header"));
    }
    let mut head = [0u8; 16];
    head.copy_from_slice(&bytes[..16]);
    let item = Item::Datagram {
        peer: from,
        moment,
        head,
        body: Vec::from_slice(rt.alloc(), &bytes[16..])?,
    };
    give(rt, route, &item)
}

/// Opens a session of caller 1 at this port, one second after the route's opening.
pub(crate) fn open(
    rt: &(impl AllocGlobal + Abort),
    route: &mut Route,
    port: u16,
    wants: &[Block<'_>],
) -> Result<(), Fail> {
    tell(rt, route, 1_000_000, peer(port), conclusion(FIRST, wants))
}

/// Asserts the end of a session that opened at one second: its port, socket ID, cause and time.
fn assert_ended(
    rt: &(impl AllocGlobal + Abort),
    ended: Option<EndedSession>,
    port: u16,
    id: u32,
    cause: EndCause,
    moment: u64,
) -> Result<SessionView, Fail> {
    let Some(session) = ended else {
        return Err(Fail::from("a session ended in the slot"));
    };
    assert_eq!(rt; (session.cause, session.moment), (cause, moment));
    let view = session.view;
    assert!(rt; view.peer == peer(port));
    assert_eq!(rt; (view.caller, view.id), (1, id));
    assert_eq!(rt; (view.opened, view.latency_ms), (1_000_000, 120));
    Ok(view)
}

#[test]
fn a_shutdown_of_a_publisher_is_reported(rt: HostRuntime) -> Result<(), Fail> {
    let mut route = studio(rt.alloc())?;
    open(&rt, &mut route, 5000, &PUBLISHES)?;
    assert!(rt; route.ended(0).is_none());
    tell(&rt, &mut route, 1_100_000, peer(5000), media(5))?;
    tell(
        &rt,
        &mut route,
        1_200_000,
        peer(5000),
        shutdown().to(SLOT_0),
    )?;
    let end = route.ended(0);
    let view = assert_ended(&rt, end, 5000, 0x10_0000, EndCause::Shutdown, 1_200_000)?;
    assert!(rt; view.role == Role::Publish && view.is_active);
    assert_eq!(rt; view.heard, 1_200_000);
    match view.traffic {
        Traffic::Received(x) => assert_eq!(rt; (x.counts.received, x.counts.bytes), (1, 2)),
        Traffic::Sent(_) => return Err(Fail::from("a publisher's counts")),
    }
    assert!(rt; route.ended(1).is_none() && route.ended(16).is_none() && route.ended(17).is_none());
    Ok(())
}

#[test]
fn a_shutdown_of_a_subscriber_is_reported(rt: HostRuntime) -> Result<(), Fail> {
    let mut route = studio(rt.alloc())?;
    open(&rt, &mut route, 5000, &PUBLISHES)?;
    open(&rt, &mut route, 5001, &REQUESTS)?;
    tell(
        &rt,
        &mut route,
        1_300_000,
        peer(5001),
        shutdown().to(SLOT_1),
    )?;
    let end = route.ended(1);
    let view = assert_ended(&rt, end, 5001, 0x10_0001, EndCause::Shutdown, 1_300_000)?;
    assert!(rt; view.role == Role::Request && !view.is_active);
    assert_eq!(rt; view.heard, 1_300_000);
    assert!(rt; route.ended(0).is_none());
    Ok(())
}

#[test]
fn silence_is_notified(rt: HostRuntime) -> Result<(), Fail> {
    let mut route = studio(rt.alloc())?;
    open(&rt, &mut route, 5000, &REQUESTS)?;
    give(&rt, &mut route, &Item::Tick { moment: 5_999_999 })?;
    assert!(rt; route.ended(0).is_none());
    give(&rt, &mut route, &Item::Tick { moment: 6_000_000 })?;
    let end = route.ended(0);
    let view = assert_ended(&rt, end, 5000, 0x10_0000, EndCause::Silence, 6_000_000)?;
    assert_eq!(rt; view.heard, 1_000_000);
    Ok(())
}

#[test]
fn a_lost_window_is_reported(rt: HostRuntime) -> Result<(), Fail> {
    let mut route = studio(rt.alloc())?;
    open(&rt, &mut route, 5000, &PUBLISHES)?;
    tell(&rt, &mut route, 1_400_000, peer(5000), media(1029))?;
    let end = route.ended(0);
    let view = assert_ended(&rt, end, 5000, 0x10_0000, EndCause::WindowLost, 1_400_000)?;
    assert_eq!(rt; view.heard, 1_400_000);
    match view.traffic {
        Traffic::Received(x) => {
            assert_eq!(rt;
                (x.counts.arrived, x.counts.received, x.counts.ahead),
                (1, 0, 1)
            )
        }
        Traffic::Sent(_) => return Err(Fail::from("a publisher's counts")),
    }
    let totals = route.totals();
    assert_eq!(rt; (totals.received.ahead, totals.received.late), (1, 0));
    Ok(())
}

/// An encoder requests to receive, and sends data anyway.
#[test]
fn data_packets_that_come_to_a_subscriber_are_counted(rt: HostRuntime) -> Result<(), Fail> {
    let mut route = studio(rt.alloc())?;
    open(&rt, &mut route, 5000, &REQUESTS)?;
    tell(&rt, &mut route, 1_100_000, peer(5000), media(5))?;
    tell(&rt, &mut route, 1_200_000, peer(5000), media(5))?;
    tell(
        &rt,
        &mut route,
        1_300_000,
        peer(5000),
        shutdown().to(SLOT_0),
    )?;
    let end = route.ended(0);
    let view = assert_ended(&rt, end, 5000, 0x10_0000, EndCause::Shutdown, 1_300_000)?;
    match view.traffic {
        Traffic::Received(_) => return Err(Fail::from("a subscriber's counts")),
        Traffic::Sent(x) => assert_eq!(rt; (x.counts.misdirected, x.counts.queued), (2, 0)),
    }
    let totals = route.totals();
    assert_eq!(rt;
        (totals.queued.misdirected, totals.received.arrived),
        (2, 0)
    );
    Ok(())
}

#[test]
fn a_close_is_reported_of_each_session(rt: HostRuntime) -> Result<(), Fail> {
    let mut route = studio(rt.alloc())?;
    open(&rt, &mut route, 5000, &PUBLISHES)?;
    open(&rt, &mut route, 5001, &PUBLISHES)?;
    open(&rt, &mut route, 5002, &REQUESTS)?;
    tell(
        &rt,
        &mut route,
        1_100_000,
        peer(5002),
        shutdown().to(SLOT_2),
    )?;
    give(&rt, &mut route, &Item::Close { moment: 2_000_000 })?;
    let end = route.ended(0);
    let active = assert_ended(&rt, end, 5000, 0x10_0000, EndCause::Closed, 2_000_000)?;
    assert_eq!(rt; (active.is_active, active.heard), (true, 1_000_000));
    let end = route.ended(1);
    let standby = assert_ended(&rt, end, 5001, 0x10_0001, EndCause::Closed, 2_000_000)?;
    assert!(rt; !standby.is_active);
    let end = route.ended(2);
    let _ = assert_ended(&rt, end, 5002, 0x10_0002, EndCause::Shutdown, 1_100_000)?;
    // After a Close nothing more is reported.
    give(&rt, &mut route, &Item::Close { moment: 9_000_000 })?;
    let end = route.ended(0);
    let _ = assert_ended(&rt, end, 5000, 0x10_0000, EndCause::Closed, 2_000_000)?;
    Ok(())
}

#[test]
fn a_slot_tells_the_last_session_that_ended_in_it(rt: HostRuntime) -> Result<(), Fail> {
    let mut route = studio(rt.alloc())?;
    open(&rt, &mut route, 5000, &REQUESTS)?;
    tell(
        &rt,
        &mut route,
        1_000_000,
        peer(5000),
        shutdown().to(SLOT_0),
    )?;
    open(&rt, &mut route, 5003, &PUBLISHES)?;
    assert_eq!(rt; route.opened(), 2);
    let end = route.ended(0);
    let first = assert_ended(&rt, end, 5000, 0x10_0000, EndCause::Shutdown, 1_000_000)?;
    assert!(rt; first.role == Role::Request);
    tell(
        &rt,
        &mut route,
        1_500_000,
        peer(5003),
        shutdown().to(SLOT_0_AGAIN),
    )?;
    let end = route.ended(0);
    let second = assert_ended(&rt, end, 5003, 0x10_0100, EndCause::Shutdown, 1_500_000)?;
    assert!(rt; second.role == Role::Publish);
    Ok(())
}

#[test]
fn the_end_of_a_publisher_that_a_standby_follows_is_reported(rt: HostRuntime) -> Result<(), Fail> {
    let mut route = studio(rt.alloc())?;
    open(&rt, &mut route, 5000, &PUBLISHES)?;
    open(&rt, &mut route, 5001, &PUBLISHES)?;
    tell(
        &rt,
        &mut route,
        1_200_000,
        peer(5000),
        shutdown().to(SLOT_0),
    )?;
    let end = route.ended(0);
    let first = assert_ended(&rt, end, 5000, 0x10_0000, EndCause::Shutdown, 1_200_000)?;
    assert!(rt; first.is_active);
    tell(
        &rt,
        &mut route,
        1_200_000,
        peer(5001),
        shutdown().to(SLOT_1),
    )?;
    let end = route.ended(1);
    let second = assert_ended(&rt, end, 5001, 0x10_0001, EndCause::Shutdown, 1_200_000)?;
    assert!(rt; second.is_active);
    Ok(())
}

#[test]
fn of_two_publishers_that_fall_silent_one_was_active(rt: HostRuntime) -> Result<(), Fail> {
    let mut route = studio(rt.alloc())?;
    open(&rt, &mut route, 5000, &PUBLISHES)?;
    open(&rt, &mut route, 5001, &PUBLISHES)?;
    give(&rt, &mut route, &Item::Tick { moment: 7_000_000 })?;
    let end = route.ended(0);
    let first = assert_ended(&rt, end, 5000, 0x10_0000, EndCause::Silence, 7_000_000)?;
    let end = route.ended(1);
    let second = assert_ended(&rt, end, 5001, 0x10_0001, EndCause::Silence, 7_000_000)?;
    assert_eq!(rt; (first.is_active, second.is_active), (true, false));
    Ok(())
}

/// Asserts how many conclusions were refused with the codes 1002, 1003, 1004 and 1012.
fn assert_refused(rt: &(impl AllocGlobal + Abort), route: &Route, counts: [u64; 4]) {
    let refused = [
        route.refused(RefusalCode::Peer),
        route.refused(RefusalCode::Resource),
        route.refused(RefusalCode::Rogue),
        route.refused(RefusalCode::MessageApi),
    ];
    assert!(rt; refused == counts);
    assert_eq!(rt; route.refused(RefusalCode::Version), 0);
}

#[test]
fn refusals_are_counted_by_code(rt: HostRuntime) -> Result<(), Fail> {
    let alloc = rt.alloc();
    let mut route = studio(alloc)?;
    assert_refused(&rt, &route, [0, 0, 0, 0]);
    let stream = conclusion(FIRST, &PUBLISHES_A_STREAM);
    tell(&rt, &mut route, 1_000_000, peer(5000), stream)?;
    tell(&rt, &mut route, 1_000_000, peer(5000), stream)?;
    assert_refused(&rt, &route, [0, 0, 0, 2]);
    let small = conclusion(Caller { mtu: 75, ..FIRST }, &PUBLISHES);
    tell(&rt, &mut route, 1_000_000, peer(5000), small)?;
    assert_refused(&rt, &route, [0, 0, 1, 2]);
    assert_eq!(rt; route.opened(), 0);
    open(&rt, &mut route, 5000, &PUBLISHES)?;
    open(&rt, &mut route, 5001, &PUBLISHES)?;
    open(&rt, &mut route, 5002, &PUBLISHES)?;
    assert_refused(&rt, &route, [1, 0, 1, 2]);
    open(&rt, &mut route, 5002, &REQUESTS)?;
    open(&rt, &mut route, 5003, &REQUESTS)?;
    open(&rt, &mut route, 5004, &REQUESTS)?;
    open(&rt, &mut route, 5005, &REQUESTS)?;
    assert_refused(&rt, &route, [1, 1, 1, 2]);
    assert_eq!(rt; route.opened(), 5);
    Ok(())
}

#[test]
fn a_conclusion_that_comes_again_opens_nothing(rt: HostRuntime) -> Result<(), Fail> {
    let alloc = rt.alloc();
    let mut route = studio(alloc)?;
    open(&rt, &mut route, 5000, &PUBLISHES)?;
    open(&rt, &mut route, 5000, &PUBLISHES)?;
    // The same caller requests what would be refused: it gets its first answer.
    let stream = conclusion(FIRST, &PUBLISHES_A_STREAM);
    tell(&rt, &mut route, 1_000_000, peer(5000), stream)?;
    assert_eq!(rt; route.opened(), 1);
    assert_refused(&rt, &route, [0, 0, 0, 0]);
    let second = conclusion(SECOND, &PUBLISHES);
    tell(&rt, &mut route, 1_000_000, peer(5000), second)?;
    assert_eq!(rt; route.opened(), 2);
    Ok(())
}

/// Asserts the received and delivered packets, the queued ones and those that were sent, of all sessions.
fn assert_totals(rt: &(impl AllocGlobal + Abort), route: &Route, counts: [u64; 4]) {
    let totals = route.totals();
    let notified = [
        totals.received.received,
        totals.received.delivered,
        totals.queued.queued,
        totals.sent.fresh,
    ];
    assert!(rt; notified == counts);
    assert_eq!(rt; totals.received.bytes, counts[0].saturating_mul(2));
    assert_eq!(rt; totals.queued.bytes, counts[2].saturating_mul(2));
}

#[test]
fn totals_stay_when_sessions_end(rt: HostRuntime) -> Result<(), Fail> {
    let mut route = studio(rt.alloc())?;
    open(&rt, &mut route, 5000, &PUBLISHES)?;
    open(&rt, &mut route, 5001, &REQUESTS)?;
    open(&rt, &mut route, 5002, &REQUESTS)?;
    assert_totals(&rt, &route, [0, 0, 0, 0]);
    tell(&rt, &mut route, 1_010_000, peer(5000), media(5))?;
    assert_totals(&rt, &route, [1, 0, 0, 0]);
    give(&rt, &mut route, &Item::Tick { moment: 1_200_000 })?;
    assert_totals(&rt, &route, [1, 1, 2, 2]);
    tell(
        &rt,
        &mut route,
        1_300_000,
        peer(5001),
        shutdown().to(SLOT_1),
    )?;
    assert_totals(&rt, &route, [1, 1, 2, 2]);
    tell(
        &rt,
        &mut route,
        1_300_000,
        peer(5000),
        shutdown().to(SLOT_0),
    )?;
    assert_totals(&rt, &route, [1, 1, 2, 2]);
    // Another publisher in the same slot and buffers.
    let conclusion = conclusion(FIRST, &PUBLISHES);
    tell(&rt, &mut route, 1_400_000, peer(5003), conclusion)?;
    assert_totals(&rt, &route, [1, 1, 2, 2]);
    let data = media(5).to(SLOT_0_AGAIN);
    tell(&rt, &mut route, 1_410_000, peer(5003), data)?;
    assert_totals(&rt, &route, [2, 1, 2, 2]);
    give(&rt, &mut route, &Item::Close { moment: 1_420_000 })?;
    assert_totals(&rt, &route, [2, 1, 2, 2]);
    Ok(())
}
