//! Subscribers with keys of their own. The messages and the encrypted payloads were made by another implementation of RFC 3394,
//! RFC 2104, RFC 8018 and FIPS 197 from the passphrases here.

use crate::ledger_tests::{drain, give};
use crate::secured_tests::{
    HORSE, KEY_REQUEST, KEYS, LINE, LONG_KEYS, PUBLISHER_ANSWER, READER, SUBSCRIBER_ANSWER,
    assert_next, assert_replied, bytes_of, keyed, offer, secured,
};
use crate::tests::{FIRST, PUBLISHES, REQUESTS, entry, peer};
use crate::{EndCause, Reply, Route};
use srt_samples::first_difference;
use srt_types::{Callers, Item, KeyLength, Mode};
use std::process::Abort;
use std::test::Fail;

/// The subscriber's KMRSP with the message of its first key, and three others: the word of failure, the message of its
/// conclusion, and that of the key with another last byte.
const CONFIRMATION: [&str; 3] = [
    "ffff0004000000000000138800100001",
    "12202902000000000200020000000406ffeeddccbbaa99887766554433221100",
    "dc889372e3baf5b1c57af328352736cf9be89aa4fe2442e42f2997e9fb2a84c5",
];

const FAILURE: [&str; 3] = ["ffff0004000000000000138800100001", "04000000", ""];

const OWN_MESSAGE: [&str; 3] = [
    "ffff0004000000000000138800100001",
    "12202901000000000200020000000406ffeeddccbbaa99887766554433221100",
    "55d5c0a04098090aa97287b4eba8443d46d8ba88121ed8187cffdf8e770d9860",
];

const OTHER_MESSAGE: [&str; 3] = [
    "ffff0004000000000000138800100001",
    "12202902000000000200020000000406ffeeddccbbaa99887766554433221100",
    "dc889372e3baf5b1c57af328352736cf9be89aa4fe2442e42f2997e9fb2a84c6",
];

/// The same KMREQ 50 ms and 111 ms after the opening.
const REPEATED: [&str; 3] = [
    "ffff0003000000000000c35000000002",
    "12202902000000000200020000000406ffeeddccbbaa99887766554433221100",
    "dc889372e3baf5b1c57af328352736cf9be89aa4fe2442e42f2997e9fb2a84c5",
];

const REPEATED_LATER: [&str; 3] = [
    "ffff0003000000000001b19800000002",
    "12202902000000000200020000000406ffeeddccbbaa99887766554433221100",
    "dc889372e3baf5b1c57af328352736cf9be89aa4fe2442e42f2997e9fb2a84c5",
];

/// The payload of two bytes under the subscriber's first key, and the same again after a NAK.
const ENCRYPTED: [&str; 1] = ["00000009f00000010001b198000000028957"];

const ENCRYPTED_AGAIN: [&str; 1] = ["00000009f40000010001b198000000028957"];

/// A subscriber's NAK for its first packet.
const LOST: [&str; 1] = ["80030000000000000001d4c00010000100000009"];

/// The publisher's Full ACKs.
const FIRST_ACK: [&str; 2] = [
    "80020000000000010000271000000001",
    "00000006000186a00000c350000003ff000000000000000000000000",
];

const SECOND_ACK: [&str; 2] = [
    "80020000000000020001d8a800000001",
    "00000006000186a00000c35000000400000000000000000000000000",
];

/// Opens a publisher and a subscriber, each with a key, after a packet of the publisher.
fn both(rt: &(impl AllocGlobal + Abort)) -> Result<Route, Fail> {
    let alloc = rt.alloc();
    let mut route = secured(alloc, HORSE, LINE)?;
    let first = keyed(alloc, FIRST, &PUBLISHES, &KEYS)?;
    let second = keyed(alloc, READER, &REQUESTS, &LONG_KEYS)?;
    let data = bytes_of(alloc, &["00000005e8000001000003e800100000ad56"])?;
    assert_replied(
        rt,
        &mut route,
        peer(5000),
        1_000_000,
        &first,
        &PUBLISHER_ANSWER,
    )?;
    assert_replied(rt, &mut route, peer(5000), 1_002_000, &data, &[])?;
    offer(rt, &mut route, peer(5001), 1_010_000, &second)?;
    assert_next(rt, &mut route, peer(5001), &SUBSCRIBER_ANSWER)?;
    assert_next(rt, &mut route, peer(5000), &FIRST_ACK)?;
    assert_next(rt, &mut route, peer(5001), &KEY_REQUEST)?;
    assert!(rt; !route.waits());
    Ok(route)
}

#[test]
fn a_snapshot_has_the_length_of_the_keys(rt: HostRuntime) -> Result<(), Fail> {
    let route = both(&rt)?;
    let publisher = route.session(0).ok_or("a session in slot 0")?;
    let subscriber = route.session(1).ok_or("a session in slot 1")?;
    assert_eq!(rt; publisher.key_length, Some(KeyLength::Aes128));
    assert_eq!(rt; subscriber.key_length, Some(KeyLength::Aes192));
    Ok(())
}

/// Asserts that the replies to a tick at this time are this one to the subscriber, or none, and any to others.
fn assert_ticked(
    rt: &(impl AllocGlobal + Abort),
    route: &mut Route,
    moment: u64,
    wanted: &[&str],
) -> Result<(), Fail> {
    if route.waits() || moment > 10_000_000 {
        return Err(Fail::from("an early moment, and no reply that waits"));
    }
    let answer = bytes_of(rt.alloc(), wanted)?;
    route.step(&Item::Tick { moment });
    let mut place = Box::new(rt.alloc(), Reply::blank())?;
    let mut came = false;
    while route.next_reply(&mut place) {
        if place.peer == peer(5001) {
            assert!(rt; !came);
            came = true;
            let mut out = [0u8; 1472];
            let len = place.packet.copy_to(&mut out);
            assert_eq!(rt; first_difference(&out[..len], &answer), None);
        }
    }
    assert_eq!(rt; came, !wanted.is_empty());
    Ok(())
}

#[test]
fn a_payload_is_sent_under_a_confirmed_key(rt: HostRuntime) -> Result<(), Fail> {
    let alloc = rt.alloc();
    let mut route = both(&rt)?;
    let confirmation = bytes_of(alloc, &CONFIRMATION)?;
    let lost = bytes_of(alloc, &LOST)?;
    assert_replied(&rt, &mut route, peer(5001), 1_015_000, &confirmation, &[])?;
    assert!(rt; !route.waits());
    route.step(&Item::Tick { moment: 1_121_000 });
    assert_next(&rt, &mut route, peer(5000), &SECOND_ACK)?;
    assert_next(&rt, &mut route, peer(5001), &ENCRYPTED)?;
    assert!(rt; !route.waits());
    // Sent again it has the same bytes, but for the flag of a packet that is sent again.
    assert_replied(
        &rt,
        &mut route,
        peer(5001),
        1_130_000,
        &lost,
        &ENCRYPTED_AGAIN,
    )
}

#[test]
fn a_key_is_announced_until_its_message_confirms_it(rt: HostRuntime) -> Result<(), Fail> {
    let mut route = both(&rt)?;
    assert_ticked(&rt, &mut route, 1_059_999, &[])?;
    assert_ticked(&rt, &mut route, 1_060_000, &REPEATED)?;
    assert_ticked(&rt, &mut route, 1_109_999, &[])
}

#[test]
fn nothing_else_confirms_a_key(rt: HostRuntime) -> Result<(), Fail> {
    for other in [&FAILURE, &OWN_MESSAGE, &OTHER_MESSAGE] {
        let mut route = both(&rt)?;
        let response = bytes_of(rt.alloc(), other)?;
        assert_replied(&rt, &mut route, peer(5001), 1_015_000, &response, &[])?;
        assert_ticked(&rt, &mut route, 1_121_000, &REPEATED_LATER)?;
    }
    Ok(())
}

/// The KEEPALIVEs of a subscriber that is alone, in slot 0, and the SHUTDOWN that it is sent five seconds after its opening.
const ALIVE: [&str; 1] = ["8001000000000000001e5d7000100000"];

const ALIVE_LATER: [&str; 1] = ["8001000000000000004a9d9000100000"];

const SHUTDOWN: [&str; 1] = ["8005000000000000004c4b4000000002"];

/// Opens a subscriber alone, with keys of its own, that doesn't confirm the first one. It was heard last 110 ms before five
/// seconds are over.
fn unconfirmed(rt: &(impl AllocGlobal + Abort), callers: Callers) -> Result<Route, Fail> {
    let alloc = rt.alloc();
    let mut studio = entry(alloc, "studio", Mode::Live)?;
    studio.access.request.passphrase = Some(String::from_str(alloc, "hold the line please")?);
    studio.rules.callers = callers;
    let Ok(mut route) = Route::open(alloc, &studio, 0) else {
        return Err(Fail::from("the route opens"));
    };
    let conclusion = keyed(alloc, READER, &REQUESTS, &LONG_KEYS)?;
    let alive = bytes_of(alloc, &ALIVE)?;
    let later = bytes_of(alloc, &ALIVE_LATER)?;
    offer(rt, &mut route, peer(5001), 1_010_000, &conclusion)?;
    drain(rt, &mut route)?;
    offer(rt, &mut route, peer(5001), 3_000_000, &alive)?;
    drain(rt, &mut route)?;
    offer(rt, &mut route, peer(5001), 5_900_000, &later)?;
    drain(rt, &mut route)?;
    Ok(route)
}

/// Asserts that this session is given up five seconds after its opening, and that these replies tell it.
fn assert_given_up(
    rt: &(impl AllocGlobal + Abort),
    route: &mut Route,
    replies: usize,
) -> Result<(), Fail> {
    give(rt, route, &Item::Tick { moment: 6_009_999 })?;
    assert!(rt; route.ended(0).is_none());
    if route.waits() {
        return Err(Fail::from("no reply that waits"));
    }
    let count = route.step(&Item::Tick { moment: 6_010_000 });
    assert_eq!(rt; count, replies);
    let Some(end) = route.ended(0) else {
        return Err(Fail::from("an end"));
    };
    assert_eq!(rt; (end.cause, end.moment), (EndCause::Silence, 6_010_000));
    assert_eq!(rt; (end.view.heard, end.view.opened), (5_900_000, 1_010_000));
    Ok(())
}

#[test]
fn a_session_that_confirms_no_key_is_given_up(rt: HostRuntime) -> Result<(), Fail> {
    let mut route = unconfirmed(&rt, Callers::Libsrt)?;
    assert_given_up(&rt, &mut route, 1)?;
    assert_next(&rt, &mut route, peer(5001), &SHUTDOWN)?;
    assert!(rt; !route.waits());
    Ok(())
}

#[test]
fn by_the_draft_its_end_is_not_told(rt: HostRuntime) -> Result<(), Fail> {
    let mut route = unconfirmed(&rt, Callers::Draft)?;
    assert_given_up(&rt, &mut route, 0)
}

#[test]
fn a_session_that_confirmed_its_key_goes_on(rt: HostRuntime) -> Result<(), Fail> {
    let alloc = rt.alloc();
    let mut route = both(&rt)?;
    let confirmation = bytes_of(alloc, &CONFIRMATION)?;
    let alive = bytes_of(alloc, &["8001000000000000004a9d9000100001"])?;
    assert_replied(&rt, &mut route, peer(5001), 1_015_000, &confirmation, &[])?;
    offer(&rt, &mut route, peer(5001), 5_900_000, &alive)?;
    drain(&rt, &mut route)?;
    give(&rt, &mut route, &Item::Tick { moment: 6_010_000 })?;
    assert!(rt; route.ended(1).is_none());
    Ok(())
}
