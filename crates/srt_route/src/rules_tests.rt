//! What a route does beyond the draft if its entry states so: limits of the sessions of an address and of the slots for
//! subscribers, a take-over by the standby, a limit on retransmissions, and packets to libsrt callers only.

use crate::ledger_tests::{SLOT_0, SLOT_1, SLOT_2, give, open, tell};
use crate::tests::{FIRST, PUBLISHES, PUBLISHES_FILES, REQUESTS, REQUESTS_FILES, entry, peer};
use crate::{EndCause, RefusalCause, Reply, Route, Traffic};
use srt_hs::RefusalCode;
use srt_samples::{
    Block, Loss, Sample, ack, conclusion, data_packet, first_difference, keep_alive, nak, shutdown,
};
use srt_types::{Callers, Item, Mode, Peer, Rules};
use std::alloc::Global;
use std::process::Abort;
use std::test::Fail;

/// A route with this mode, this number of slots and these rules.
pub(crate) fn ruled(alloc: Global, mode: Mode, sessions: u32, rules: Rules) -> Result<Route, Fail> {
    let name = match mode {
        Mode::Live => "studio",
        Mode::Buffer => "files",
    };
    let mut entry = entry(alloc, name, mode)?;
    entry.sessions = sessions;
    entry.rules = rules;
    match Route::open(alloc, &entry, 0) {
        Ok(route) => Ok(route),
        Err(_) => Err(Fail::from("the route opens")),
    }
}

/// A caller of another address than `peer`.
fn neighbour(port: u16) -> Peer {
    let mut other = peer(port);
    other.ip[15] = 2;
    other
}

/// Asserts how many sessions opened, and how many conclusions were refused because of a third publisher, an address
/// with all its sessions, no free slot, and reserved slots.
fn assert_admitted(rt: &(impl AllocGlobal + Abort), route: &Route, opened: u64, refused: [u64; 4]) {
    assert_eq!(rt; route.opened(), opened);
    let notified = [
        route.refused_for(RefusalCause::Peer),
        route.refused_for(RefusalCause::Address),
        route.refused_for(RefusalCause::Resource),
        route.refused_for(RefusalCause::Reserved),
    ];
    assert!(rt; notified == refused);
    let with_code = refused[1]
        .saturating_add(refused[2])
        .saturating_add(refused[3]);
    assert_eq!(rt; route.refused(RefusalCode::Resource), with_code);
}

#[test]
fn an_address_has_no_more_sessions_than_it_may(rt: HostRuntime) -> Result<(), Fail> {
    let rules = Rules {
        sessions_per_address: Some(2),
        ..Rules::DRAFT
    };
    let mut route = ruled(rt.alloc(), Mode::Live, 5, rules)?;
    open(&rt, &mut route, 5000, &PUBLISHES)?;
    open(&rt, &mut route, 5001, &REQUESTS)?;
    assert_admitted(&rt, &route, 2, [0, 0, 0, 0]);
    open(&rt, &mut route, 5002, &REQUESTS)?;
    assert_admitted(&rt, &route, 2, [0, 1, 0, 0]);
    // A repeated conclusion is answered, and another address has a limit of its own.
    open(&rt, &mut route, 5001, &REQUESTS)?;
    let wants = conclusion(FIRST, &REQUESTS);
    tell(&rt, &mut route, 1_000_000, neighbour(5002), wants)?;
    assert_admitted(&rt, &route, 3, [0, 1, 0, 0]);
    // An ended session isn't counted.
    let end = shutdown().to(SLOT_1);
    tell(&rt, &mut route, 1_000_000, peer(5001), end)?;
    open(&rt, &mut route, 5002, &PUBLISHES)?;
    assert_admitted(&rt, &route, 4, [0, 1, 0, 0]);
    // A third publisher is refused as one, though its address has all its sessions.
    open(&rt, &mut route, 5003, &PUBLISHES)?;
    assert_admitted(&rt, &route, 4, [1, 1, 0, 0]);
    Ok(())
}

#[test]
fn slots_are_kept_for_publishers(rt: HostRuntime) -> Result<(), Fail> {
    let rules = Rules {
        reserved: 2,
        ..Rules::DRAFT
    };
    let mut route = ruled(rt.alloc(), Mode::Live, 4, rules)?;
    open(&rt, &mut route, 5000, &REQUESTS)?;
    open(&rt, &mut route, 5001, &REQUESTS)?;
    assert_admitted(&rt, &route, 2, [0, 0, 0, 0]);
    open(&rt, &mut route, 5002, &REQUESTS)?;
    assert_admitted(&rt, &route, 2, [0, 0, 0, 1]);
    open(&rt, &mut route, 5003, &PUBLISHES)?;
    assert_admitted(&rt, &route, 3, [0, 0, 0, 1]);
    // One publisher is open, and one slot is free: it is reserved for another publisher.
    open(&rt, &mut route, 5004, &REQUESTS)?;
    assert_admitted(&rt, &route, 3, [0, 0, 0, 2]);
    open(&rt, &mut route, 5005, &PUBLISHES)?;
    assert_admitted(&rt, &route, 4, [0, 0, 0, 2]);
    // No slot is free any more.
    open(&rt, &mut route, 5006, &REQUESTS)?;
    assert_admitted(&rt, &route, 4, [0, 0, 1, 2]);
    Ok(())
}

/// A data packet of the session with this ID, with this number and this timestamp.
pub(crate) fn media<'a>(id: u32, number: u32, stamp: u32) -> Sample<'a> {
    data_packet(number).stamp(stamp).to(id).payload(b"hi")
}

/// Asserts which of the publishers in slots 0 and 1 are active after a tick at this time.
fn assert_active(
    rt: &(impl AllocGlobal + Abort),
    route: &mut Route,
    moment: u64,
    active: (bool, bool),
) -> Result<(), Fail> {
    give(rt, route, &Item::Tick { moment })?;
    let first = route.session(0).ok_or("a session in slot 0")?;
    let second = route.session(1).ok_or("a session in slot 1")?;
    assert_eq!(rt; (first.is_active, second.is_active), active);
    Ok(())
}

const TAKES_OVER: Rules = Rules {
    takeover_ms: Some(100),
    ..Rules::DRAFT
};

#[test]
fn the_standby_takes_over_and_back(rt: HostRuntime) -> Result<(), Fail> {
    let mut route = ruled(rt.alloc(), Mode::Live, 5, TAKES_OVER)?;
    open(&rt, &mut route, 5000, &PUBLISHES)?;
    open(&rt, &mut route, 5001, &PUBLISHES)?;
    tell(
        &rt,
        &mut route,
        1_050_000,
        peer(5001),
        media(SLOT_1, 5, 50_000),
    )?;
    assert_active(&rt, &mut route, 1_099_999, (true, false))?;
    // Data of the active one arrives too late after exactly a tenth of a second.
    tell(
        &rt,
        &mut route,
        1_100_000,
        peer(5000),
        media(SLOT_0, 5, 99_000),
    )?;
    assert_active(&rt, &mut route, 1_100_000, (false, true))?;
    assert_active(&rt, &mut route, 1_149_999, (false, true))?;
    assert_active(&rt, &mut route, 1_150_000, (true, false))?;
    // Both are silent: the active one stays active.
    assert_active(&rt, &mut route, 1_300_000, (true, false))?;
    // Data of the standby counts from the next event on.
    tell(
        &rt,
        &mut route,
        1_310_000,
        peer(5001),
        media(SLOT_1, 6, 310_000),
    )?;
    let second = route.session(1).ok_or("a session in slot 1")?;
    assert!(rt; !second.is_active);
    assert_active(&rt, &mut route, 1_310_000, (false, true))?;
    // The publisher that was opened first is alone, and then a new one is the standby.
    tell(
        &rt,
        &mut route,
        1_320_000,
        peer(5001),
        shutdown().to(SLOT_1),
    )?;
    let wants = conclusion(FIRST, &PUBLISHES);
    tell(&rt, &mut route, 1_320_000, peer(5002), wants)?;
    assert_active(&rt, &mut route, 1_320_000, (false, true))
}

#[test]
fn without_a_time_nobody_takes_over(rt: HostRuntime) -> Result<(), Fail> {
    let mut route = ruled(rt.alloc(), Mode::Live, 5, Rules::DRAFT)?;
    open(&rt, &mut route, 5000, &PUBLISHES)?;
    open(&rt, &mut route, 5001, &PUBLISHES)?;
    tell(
        &rt,
        &mut route,
        4_000_000,
        peer(5001),
        media(SLOT_1, 5, 50_000),
    )?;
    assert_active(&rt, &mut route, 4_000_000, (true, false))
}

#[test]
fn in_buffer_mode_nobody_takes_over(rt: HostRuntime) -> Result<(), Fail> {
    let mut route = ruled(rt.alloc(), Mode::Buffer, 5, TAKES_OVER)?;
    open(&rt, &mut route, 5000, &PUBLISHES_FILES)?;
    open(&rt, &mut route, 5001, &PUBLISHES_FILES)?;
    tell(
        &rt,
        &mut route,
        4_000_000,
        peer(5001),
        media(SLOT_1, 5, 50_000),
    )?;
    assert_active(&rt, &mut route, 4_000_000, (true, false))
}

/// Returns the number of payloads queued for the subscriber in slot 2, and of the data packets sent to it for the first
/// time and again.
fn sendings(route: &Route) -> Result<(u64, u64, u64), Fail> {
    let view = route.session(2).ok_or("a session in slot 2")?;
    match view.traffic {
        Traffic::Sent(x) => Ok((x.counts.queued, x.sendings.fresh, x.sendings.resent)),
        Traffic::Received(_) => Err(Fail::from("a subscriber")),
    }
}

#[test]
fn what_falls_due_at_a_standby_goes_to_nobody(rt: HostRuntime) -> Result<(), Fail> {
    let mut route = ruled(rt.alloc(), Mode::Live, 5, TAKES_OVER)?;
    open(&rt, &mut route, 5000, &PUBLISHES)?;
    open(&rt, &mut route, 5001, &PUBLISHES)?;
    open(&rt, &mut route, 5002, &REQUESTS)?;
    // Due at 1.121 s at the first publisher, and at 1.170 s at the second.
    tell(
        &rt,
        &mut route,
        1_001_000,
        peer(5000),
        media(SLOT_0, 5, 1_000),
    )?;
    tell(
        &rt,
        &mut route,
        1_050_000,
        peer(5001),
        media(SLOT_1, 5, 50_000),
    )?;
    assert_active(&rt, &mut route, 1_101_000, (false, true))?;
    give(&rt, &mut route, &Item::Tick { moment: 1_145_000 })?;
    assert_eq!(rt; sendings(&route)?, (0, 0, 0));
    // The first one has been silent for longer, so nothing changes before the payload of the second.
    tell(
        &rt,
        &mut route,
        1_146_000,
        peer(5001),
        media(SLOT_1, 6, 146_000),
    )?;
    give(&rt, &mut route, &Item::Tick { moment: 1_170_000 })?;
    assert_eq!(rt; sendings(&route)?, (1, 1, 0));
    Ok(())
}

/// All numbers of 65 packets from 5 on.
const ALL_65: [Loss; 1] = [Loss::Range(5, 69)];

/// 65 packets add 5 hundredths each to the initial 6400: in all 67 may be retransmitted, and one more after 20 ms.
#[test]
fn a_subscriber_is_sent_few_packets_again(rt: HostRuntime) -> Result<(), Fail> {
    let rules = Rules {
        resend_percent: Some(5),
        ..Rules::DRAFT
    };
    let mut route = ruled(rt.alloc(), Mode::Live, 5, rules)?;
    open(&rt, &mut route, 5000, &PUBLISHES)?;
    open(&rt, &mut route, 5001, &PUBLISHES)?;
    open(&rt, &mut route, 5002, &REQUESTS)?;
    for number in 5..70 {
        tell(
            &rt,
            &mut route,
            1_001_000,
            peer(5000),
            media(SLOT_0, number, 1_000),
        )?;
    }
    give(&rt, &mut route, &Item::Tick { moment: 1_121_000 })?;
    give(&rt, &mut route, &Item::Tick { moment: 1_121_000 })?;
    assert_eq!(rt; sendings(&route)?, (65, 65, 0));
    tell(
        &rt,
        &mut route,
        1_122_000,
        peer(5002),
        nak(&ALL_65).to(SLOT_2),
    )?;
    assert_eq!(rt; sendings(&route)?, (65, 65, 64));
    tell(
        &rt,
        &mut route,
        1_123_000,
        peer(5002),
        nak(&ALL_65).to(SLOT_2),
    )?;
    assert_eq!(rt; sendings(&route)?, (65, 65, 67));
    give(&rt, &mut route, &Item::Tick { moment: 1_142_999 })?;
    assert_eq!(rt; sendings(&route)?, (65, 65, 67));
    give(&rt, &mut route, &Item::Tick { moment: 1_143_000 })?;
    assert_eq!(rt; sendings(&route)?, (65, 65, 68));
    Ok(())
}

pub(crate) const OF_LIBSRT: Rules = Rules {
    callers: Callers::Libsrt,
    ..Rules::DRAFT
};

/// Offers a route these bytes from a peer at this time, and leaves its replies.
fn send(
    rt: &(impl AllocGlobal + Abort),
    route: &mut Route,
    moment: u64,
    from: Peer,
    sample: Sample<'_>,
) -> Result<(), Fail> {
    let bytes = sample.bytes(rt.alloc())?;
    if bytes.len() < 16 || route.waits() || moment > 1_000_000_000 {
        return Err(Fail::from("a header, and no reply that waits"));
    }
    let mut head = [0u8; 16];
    head.copy_from_slice(&bytes[..16]);
    let item = Item::Datagram {
        peer: from,
        moment,
        head,
        body: Vec::from_slice(rt.alloc(), &bytes[16..])?,
    };
    let _ = route.step(&item);
    Ok(())
}

/// Asserts the waiting replies: a SHUTDOWN with this timestamp to caller 1 at each of these ports, and nothing else.
fn assert_reported(
    rt: &(impl AllocGlobal + Abort),
    route: &mut Route,
    stamp: u32,
    ports: &[u16],
) -> Result<(), Fail> {
    let wanted = shutdown().stamp(stamp).to(1).bytes(rt.alloc())?;
    let mut out = [0u8; 1472];
    let mut place = Box::new(rt.alloc(), Reply::blank())?;
    for port in ports {
        assert!(rt; route.next_reply(&mut place));
        assert!(rt; place.peer == peer(*port));
        let len = place.packet.copy_to(&mut out);
        assert_eq!(rt; first_difference(&out[..len], &wanted), None);
    }
    assert!(rt; !route.waits());
    Ok(())
}

/// Two sessions of a route with these rules are silent for five seconds.
fn assert_silence_notified(
    rt: &(impl AllocGlobal + Abort),
    rules: Rules,
    ports: &[u16],
) -> Result<(), Fail> {
    let mut route = ruled(rt.alloc(), Mode::Live, 5, rules)?;
    open(rt, &mut route, 5000, &PUBLISHES)?;
    open(rt, &mut route, 5001, &REQUESTS)?;
    give(rt, &mut route, &Item::Tick { moment: 5_999_999 })?;
    if route.waits() {
        return Err(Fail::from("no reply that waits"));
    }
    let _ = route.step(&Item::Tick { moment: 6_000_000 });
    assert_reported(rt, &mut route, 5_000_000, ports)
}

#[test]
fn ends_by_silence_are_reported_to_libsrt_alone(rt: HostRuntime) -> Result<(), Fail> {
    assert_silence_notified(&rt, OF_LIBSRT, &[5000, 5001])?;
    assert_silence_notified(&rt, Rules::DRAFT, &[])
}

/// A publisher of a route with these rules sends a packet far beyond its window.
fn assert_lost_window_notified(
    rt: &(impl AllocGlobal + Abort),
    rules: Rules,
    ports: &[u16],
) -> Result<(), Fail> {
    let mut route = ruled(rt.alloc(), Mode::Live, 5, rules)?;
    open(rt, &mut route, 5000, &PUBLISHES)?;
    let beyond = media(SLOT_0, 1029, 1_000);
    send(rt, &mut route, 1_400_000, peer(5000), beyond)?;
    assert_reported(rt, &mut route, 400_000, ports)
}

#[test]
fn a_lost_window_is_answered_to_libsrt_alone(rt: HostRuntime) -> Result<(), Fail> {
    assert_lost_window_notified(&rt, OF_LIBSRT, &[5000])?;
    assert_lost_window_notified(&rt, Rules::DRAFT, &[])
}

#[test]
fn an_own_shutdown_is_not_answered(rt: HostRuntime) -> Result<(), Fail> {
    let mut route = ruled(rt.alloc(), Mode::Live, 5, OF_LIBSRT)?;
    open(&rt, &mut route, 5000, &PUBLISHES)?;
    let end = shutdown().to(SLOT_0);
    send(&rt, &mut route, 1_400_000, peer(5000), end)?;
    assert_reported(&rt, &mut route, 400_000, &[])
}

/// A publisher of files in slot 0 and a subscriber in slot 1 that was sent one packet at 1.001 s.
fn fed_file(rt: &(impl AllocGlobal + Abort), rules: Rules) -> Result<Route, Fail> {
    let mut route = ruled(rt.alloc(), Mode::Buffer, 5, rules)?;
    open(rt, &mut route, 5000, &PUBLISHES_FILES)?;
    open(rt, &mut route, 5001, &REQUESTS_FILES)?;
    tell(
        rt,
        &mut route,
        1_001_000,
        peer(5000),
        media(SLOT_0, 5, 1_000),
    )?;
    Ok(route)
}

/// An ACK of everything up to the number 6, from the session in slot 1.
fn acknowledged<'a>() -> Sample<'a> {
    ack(0, &[6]).to(SLOT_1)
}

#[test]
fn the_end_of_a_file_is_reported(rt: HostRuntime) -> Result<(), Fail> {
    let mut route = fed_file(&rt, OF_LIBSRT)?;
    tell(
        &rt,
        &mut route,
        1_100_000,
        peer(5000),
        shutdown().to(SLOT_0),
    )?;
    // The packet is not acknowledged yet.
    send(
        &rt,
        &mut route,
        1_110_000,
        peer(5001),
        keep_alive().to(SLOT_1),
    )?;
    assert_reported(&rt, &mut route, 0, &[])?;
    send(&rt, &mut route, 1_120_000, peer(5001), acknowledged())?;
    assert_reported(&rt, &mut route, 120_000, &[5001])?;
    assert!(rt; route.session(1).is_none());
    let end = route.ended(1).ok_or("an end in slot 1")?;
    assert_eq!(rt; (end.cause, end.moment), (EndCause::FileEnded, 1_120_000));
    Ok(())
}

#[test]
fn a_silent_publisher_ends_no_file(rt: HostRuntime) -> Result<(), Fail> {
    let mut route = fed_file(&rt, OF_LIBSRT)?;
    tell(&rt, &mut route, 5_900_000, peer(5001), acknowledged())?;
    give(&rt, &mut route, &Item::Tick { moment: 6_001_000 })?;
    assert_eq!(rt; route.publishers(), 0);
    assert!(rt; route.session(1).is_some());
    Ok(())
}

#[test]
fn by_the_draft_no_end_of_a_file_is_reported(rt: HostRuntime) -> Result<(), Fail> {
    let mut route = fed_file(&rt, Rules::DRAFT)?;
    tell(
        &rt,
        &mut route,
        1_100_000,
        peer(5000),
        shutdown().to(SLOT_0),
    )?;
    send(&rt, &mut route, 1_120_000, peer(5001), acknowledged())?;
    assert_reported(&rt, &mut route, 0, &[])?;
    assert!(rt; route.session(1).is_some());
    Ok(())
}

/// A publisher in slot 0 of a route of this mode with these rules, whose only packet and then its SHUTDOWN arrived.
fn left(
    rt: &(impl AllocGlobal + Abort),
    mode: Mode,
    rules: Rules,
    publishes: &[Block<'_>],
) -> Result<Route, Fail> {
    let mut route = ruled(rt.alloc(), mode, 5, rules)?;
    open(rt, &mut route, 5000, publishes)?;
    tell(
        rt,
        &mut route,
        1_001_000,
        peer(5000),
        media(SLOT_0, 5, 1_000),
    )?;
    tell(rt, &mut route, 1_002_000, peer(5000), shutdown().to(SLOT_0))?;
    Ok(route)
}

#[test]
fn what_came_before_a_shutdown_is_delivered(rt: HostRuntime) -> Result<(), Fail> {
    let mut route = left(&rt, Mode::Live, OF_LIBSRT, &PUBLISHES)?;
    let view = route.session(0).ok_or("a session that drains")?;
    assert!(rt; view.is_draining);
    let due = 1_001_000 + u64::from(view.latency_ms) * 1000;
    give(&rt, &mut route, &Item::Tick { moment: due - 1 })?;
    assert!(rt; route.session(0).is_some());
    give(&rt, &mut route, &Item::Tick { moment: due })?;
    assert!(rt; route.session(0).is_none());
    let end = route.ended(0).ok_or("an end in slot 0")?;
    assert_eq!(rt; (end.cause, end.moment), (EndCause::Drained, due));
    Ok(())
}

#[test]
fn a_publisher_drains_for_five_seconds_at_most(rt: HostRuntime) -> Result<(), Fail> {
    let mut route = left(&rt, Mode::Buffer, OF_LIBSRT, &PUBLISHES_FILES)?;
    give(&rt, &mut route, &Item::Tick { moment: 6_001_999 })?;
    assert!(rt; route.session(0).is_some());
    if route.waits() {
        return Err(Fail::from("no reply that waits"));
    }
    let _ = route.step(&Item::Tick { moment: 6_002_000 });
    assert_reported(&rt, &mut route, 0, &[])?;
    let end = route.ended(0).ok_or("an end in slot 0")?;
    assert_eq!(rt;
        (end.cause, end.moment),
        (EndCause::DrainedTooLong, 6_002_000)
    );
    Ok(())
}

#[test]
fn by_the_draft_a_publisher_leaves_at_once(rt: HostRuntime) -> Result<(), Fail> {
    let route = left(&rt, Mode::Live, Rules::DRAFT, &PUBLISHES)?;
    assert!(rt; route.session(0).is_none());
    Ok(())
}

/// In buffer mode ACKs to libsrt callers have rates: at least 1000 packets and 1456000 bytes a second, and a link of
/// 100000 packets. The route has one packet of 32 by then.
#[test]
fn callers_of_libsrt_are_sent_rates(rt: HostRuntime) -> Result<(), Fail> {
    let mut route = ruled(rt.alloc(), Mode::Buffer, 5, OF_LIBSRT)?;
    open(&rt, &mut route, 5000, &PUBLISHES_FILES)?;
    tell(
        &rt,
        &mut route,
        1_001_000,
        peer(5000),
        media(SLOT_0, 5, 1_000),
    )?;
    if route.waits() {
        return Err(Fail::from("no reply that waits"));
    }
    let waiting = route.step(&Item::Tick { moment: 1_010_000 });
    assert_eq!(rt; waiting, 1);
    let mut place = Box::new(rt.alloc(), Reply::blank())?;
    assert!(rt; route.next_reply(&mut place));
    let mut out = [0u8; 1472];
    let len = place.packet.copy_to(&mut out);
    let words = [6, 100_000, 50_000, 31, 1_000, 100_000, 1_456_000];
    let wanted = ack(1, &words).stamp(10_000).to(1).bytes(rt.alloc())?;
    assert_eq!(rt; first_difference(&out[..len], &wanted), None);
    Ok(())
}
