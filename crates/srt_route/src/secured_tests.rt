//! Conclusions at a route with secured roles. The key material messages and the keys in them were made by another
//! implementation of RFC 3394 and RFC 8018 from the passphrases here.

use crate::tests::{FIRST, PUBLISHES, REQUESTS, SECOND, entry, peer, studio};
use crate::{RefusalCause, Reply, Route};
use srt_samples::{Block, Caller, conclusion, first_difference};
use srt_types::{Item, Mode, Peer};
use std::alloc::Global;
use std::process::Abort;
use std::test::Fail;

/// The KMREQ block of a publisher that knows the passphrase, with a key of 16 bytes.
pub(crate) const KEYS: [&str; 1] = [
    "0003000e1220290100000000020002000000040400112233445566778899aabbccddeeff097ad2a296802dd03b3cad778b2ef5ec61782692f95549e2",
];

/// The same, whose last byte is another.
const OTHER_KEYS: [&str; 1] = [
    "0003000e1220290100000000020002000000040400112233445566778899aabbccddeeff097ad2a296802dd03b3cad778b2ef5ec61782692f95549e3",
];

/// The same with the cipher 3, which there isn't.
const OTHER_CIPHER: [&str; 1] = [
    "0003000e1220290100000000030002000000040400112233445566778899aabbccddeeff097ad2a296802dd03b3cad778b2ef5ec61782692f95549e2",
];

/// The KMREQ block of a subscriber that knows the passphrase, with a key of 24 bytes.
pub(crate) const LONG_KEYS: [&str; 2] = [
    "0003001012202901000000000200020000000406ffeeddccbbaa9988776655443322110055d5c0a04098090aa97287b4eba8443d46d8ba88121ed8187cffdf8e77",
    "0d9860",
];

/// The answer to the publisher, whose session opens in slot 0.
pub(crate) const PUBLISHER_ANSWER: [&str; 3] = [
    "80000000000000000000000000000001000000050002000300000005000005dc00000400ffffffff00100000000000000000000000000000000000000000000000",
    "020003000105000000003f007800780004000e1220290100000000020002000000040400112233445566778899aabbccddeeff097ad2a296802dd03b3cad778b2e",
    "f5ec61782692f95549e2",
];

/// The answer to the subscriber, whose session opens in slot 1.
pub(crate) const SUBSCRIBER_ANSWER: [&str; 3] = [
    "80000000000000000000000000000002000000050003000300000009000005dc00000400ffffffff00100001000000000000000000000000000000000000000000",
    "020003000105000000003f007800780004001012202901000000000200020000000406ffeeddccbbaa9988776655443322110055d5c0a04098090aa97287b4eba8",
    "443d46d8ba88121ed8187cffdf8e770d9860",
];

/// The refusal of the publisher with 1010.
const WRONG_SECRET: [&str; 1] = [
    "80000000000000000000000000000001000000050000000000000005000005dc00002000000003f2000000010000000000000000000000000000000000000000",
];

/// The same with 1002, while two publishers are open.
const THIRD_PUBLISHER: [&str; 1] = [
    "80000000000000000000000000000001000000050000000000000005000005dc00002000000003ea000000010000000000000000000000000000000000000000",
];

/// The answer to the publisher whose session opens in slot 1.
const STANDBY_ANSWER: [&str; 3] = [
    "80000000000000000000000000000001000000050002000300000005000005dc00000400ffffffff00100001000000000000000000000000000000000000000000",
    "020003000105000000003f007800780004000e1220290100000000020002000000040400112233445566778899aabbccddeeff097ad2a296802dd03b3cad778b2e",
    "f5ec61782692f95549e2",
];

/// The answer to the subscriber that opens again in slot 1.
const SUBSCRIBER_ANSWER_AGAIN: [&str; 3] = [
    "80000000000000000000000000000002000000050003000300000009000005dc00000400ffffffff00100101000000000000000000000000000000000000000000",
    "020003000105000000003f007800780004001012202901000000000200020000000406ffeeddccbbaa9988776655443322110055d5c0a04098090aa97287b4eba8",
    "443d46d8ba88121ed8187cffdf8e770d9860",
];

/// The KMREQ of the subscriber's first key, behind its answer.
pub(crate) const KEY_REQUEST: [&str; 3] = [
    "ffff0003000000000000000000000002",
    "12202902000000000200020000000406ffeeddccbbaa99887766554433221100",
    "dc889372e3baf5b1c57af328352736cf9be89aa4fe2442e42f2997e9fb2a84c5",
];

/// That of the session that it opens again.
const NEXT_KEY_REQUEST: [&str; 3] = [
    "ffff0003000000000000000000000002",
    "12202902000000000200020000000406ffeeddccbbaa99887766554433221100",
    "a27600475b0623a41cfb111dcfcdfbb5716f43e4cfea2828abc51598a57453c0",
];

/// The SHUTDOWN to the first session of slot 1.
const SHUTDOWN: [&str; 1] = ["80050000000000000000000000100001"];

/// The KMREQ of the publisher in slot 0, 2 ms after its opening: its even key again, and an odd one.
const REFRESH: [&str; 2] = [
    "ffff000300000000000007d000100000122029030000000002000200000004040011223344556677",
    "8899aabbccddeeff6fb33170e306ec34db4169bf930e9d2a98363146c9251e1c99a1280cf62712c3d456b5bddf92cde2",
];

/// The same, whose last byte is another.
const OTHER_REFRESH: [&str; 2] = [
    "ffff000300000000000007d000100000122029030000000002000200000004040011223344556677",
    "8899aabbccddeeff6fb33170e306ec34db4169bf930e9d2a98363146c9251e1c99a1280cf62712c3d456b5bddf92cde3",
];

/// The same with the subscriber's salt.
const OTHER_SALT: [&str; 2] = [
    "ffff000300000000000007d00010000012202903000000000200020000000404ffeeddccbbaa9988",
    "77665544332211006fb33170e306ec34db4169bf930e9d2a98363146c9251e1c99a1280cf62712c3d456b5bddf92cde2",
];

/// That of the publisher in slot 1.
const STANDBY_REFRESH: [&str; 2] = [
    "ffff000300000000000007d000100001122029030000000002000200000004040011223344556677",
    "8899aabbccddeeff6fb33170e306ec34db4169bf930e9d2a98363146c9251e1c99a1280cf62712c3d456b5bddf92cde2",
];

/// The KMRSP to the first one.
const REFRESHED: [&str; 2] = [
    "ffff000400000000000007d000000001122029030000000002000200000004040011223344556677",
    "8899aabbccddeeff6fb33170e306ec34db4169bf930e9d2a98363146c9251e1c99a1280cf62712c3d456b5bddf92cde2",
];

/// The KMRSP BADSECRET, and NOSECRET.
const BAD_SECRET: [&str; 1] = ["ffff000400000000000007d00000000104000000"];

const NO_SECRET: [&str; 1] = ["ffff000400000000000007d00000000103000000"];

/// A subscriber with a cookie of its own.
pub(crate) const READER: Caller = Caller {
    id: 2,
    initial: 9,
    mtu: 1500,
    window: 8192,
    cookie: 0x6e46_80bd,
};

/// A live route whose publishers and subscribers have these passphrases.
pub(crate) fn secured(
    alloc: Global,
    publish: Option<&str>,
    request: Option<&str>,
) -> Result<Route, Fail> {
    let mut studio = entry(alloc, "studio", Mode::Live)?;
    if let Some(passphrase) = publish {
        studio.access.publish.passphrase = Some(String::from_str(alloc, passphrase)?);
    }
    if let Some(passphrase) = request {
        studio.access.request.passphrase = Some(String::from_str(alloc, passphrase)?);
    }
    match Route::open(alloc, &studio, 0) {
        Ok(route) => Ok(route),
        Err(_) => Err(Fail::from("the route opens")),
    }
}

pub(crate) const HORSE: Option<&str> = Some("correct horse battery");

pub(crate) const LINE: Option<&str> = Some("hold the line please");

/// Adds these bytes in hexadecimal digits.
fn push_hex(alloc: Global, bytes: &mut Vec<u8>, text: &[&str]) -> Result<(), Fail> {
    for part in text {
        bytes.extend_from_slice(&hex::decode(alloc, part)?)?;
    }
    Ok(())
}

/// A conclusion with these blocks, and with these in hexadecimal digits behind them.
pub(crate) fn keyed(
    alloc: Global,
    caller: Caller,
    blocks: &[Block<'static>; 2],
    more: &[&str],
) -> Result<Vec<u8>, Fail> {
    let mut bytes = conclusion(caller, blocks).bytes(alloc)?;
    push_hex(alloc, &mut bytes, more)?;
    Ok(bytes)
}

/// Asserts the bytes of the route's only reply to a datagram at this time, none if there is no reply.
pub(crate) fn assert_replied(
    rt: &(impl AllocGlobal + Abort),
    route: &mut Route,
    from: Peer,
    moment: u64,
    bytes: &[u8],
    wanted: &[&str],
) -> Result<(), Fail> {
    if bytes.len() < 16 || route.waits() || moment > 10_000_000 {
        return Err(Fail::from("a header, an early moment, and no reply that waits"));
    }
    let mut head = [0u8; 16];
    head.copy_from_slice(&bytes[..16]);
    let item = Item::Datagram {
        peer: from,
        moment,
        head,
        body: Vec::from_slice(rt.alloc(), &bytes[16..])?,
    };
    let mut answer = Vec::new(rt.alloc());
    push_hex(rt.alloc(), &mut answer, wanted)?;
    let waiting = route.step(&item);
    let mut out = [0u8; 1472];
    let mut len = 0;
    let mut place = Box::new(rt.alloc(), Reply::blank())?;
    if route.next_reply(&mut place) {
        assert_eq!(rt; waiting, 1);
        assert!(rt; place.peer == from);
        len = place.packet.copy_to(&mut out);
    } else {
        assert_eq!(rt; waiting, 0);
    }
    assert_eq!(rt; first_difference(&out[..len], &answer), None);
    assert!(rt; !route.waits());
    Ok(())
}

#[test]
fn a_publisher_with_the_passphrase_is_answered_with_its_message(
    rt: HostRuntime,
) -> Result<(), Fail> {
    let alloc = rt.alloc();
    let mut route = secured(alloc, HORSE, LINE)?;
    let with = keyed(alloc, FIRST, &PUBLISHES, &KEYS)?;
    let without = keyed(alloc, FIRST, &PUBLISHES, &[])?;
    let other = keyed(alloc, FIRST, &PUBLISHES, &OTHER_KEYS)?;
    let long = keyed(alloc, FIRST, &PUBLISHES, &LONG_KEYS)?;
    let cipher = keyed(alloc, FIRST, &PUBLISHES, &OTHER_CIPHER)?;
    let twice = {
        let mut bytes = keyed(alloc, FIRST, &PUBLISHES, &KEYS)?;
        push_hex(alloc, &mut bytes, &KEYS)?;
        bytes
    };
    for ignored in [&without, &cipher, &twice] {
        assert_replied(&rt, &mut route, peer(5000), 1_000_000, ignored, &[])?;
    }
    assert_replied(
        &rt,
        &mut route,
        peer(5000),
        1_000_000,
        &other,
        &WRONG_SECRET,
    )?;
    assert_replied(&rt, &mut route, peer(5000), 1_000_000, &long, &WRONG_SECRET)?;
    assert_eq!(rt; route.opened(), 0);
    assert_eq!(rt; route.refused_for(RefusalCause::Secret), 2);
    assert_replied(
        &rt,
        &mut route,
        peer(5000),
        1_000_000,
        &with,
        &PUBLISHER_ANSWER,
    )?;
    // Whatever message a repeated conclusion brings, its answer is the first.
    assert_replied(
        &rt,
        &mut route,
        peer(5000),
        1_000_000,
        &with,
        &PUBLISHER_ANSWER,
    )?;
    assert_replied(
        &rt,
        &mut route,
        peer(5000),
        1_000_000,
        &other,
        &PUBLISHER_ANSWER,
    )?;
    assert_eq!(rt; route.opened(), 1);
    Ok(())
}

#[test]
fn a_subscriber_has_its_own_passphrase(rt: HostRuntime) -> Result<(), Fail> {
    let alloc = rt.alloc();
    let mut route = secured(alloc, HORSE, LINE)?;
    let first = keyed(alloc, FIRST, &PUBLISHES, &KEYS)?;
    let second = keyed(alloc, READER, &REQUESTS, &LONG_KEYS)?;
    assert_replied(
        &rt,
        &mut route,
        peer(5000),
        1_000_000,
        &first,
        &PUBLISHER_ANSWER,
    )?;
    offer(&rt, &mut route, peer(5001), 1_000_001, &second)?;
    assert_next(&rt, &mut route, peer(5001), &SUBSCRIBER_ANSWER)?;
    assert_next(&rt, &mut route, peer(5001), &KEY_REQUEST)?;
    assert!(rt; !route.waits());
    Ok(())
}

#[test]
fn derivations_are_limited(rt: HostRuntime) -> Result<(), Fail> {
    let alloc = rt.alloc();
    let mut route = secured(alloc, HORSE, None)?;
    let other = keyed(alloc, FIRST, &PUBLISHES, &OTHER_KEYS)?;
    for k in 0..20 {
        assert_replied(
            &rt,
            &mut route,
            peer(5000 + k),
            1_000_000,
            &other,
            &WRONG_SECRET,
        )?;
    }
    assert_replied(&rt, &mut route, peer(5020), 1_000_000, &other, &[])?;
    let mut elsewhere = peer(5000);
    elsewhere.ip[15] = 2;
    assert_replied(&rt, &mut route, elsewhere, 1_049_999, &other, &[])?;
    assert_replied(&rt, &mut route, elsewhere, 1_050_000, &other, &WRONG_SECRET)?;
    let mut like = peer(5000);
    like.ip[15] = 65;
    assert_replied(&rt, &mut route, peer(5000), 1_499_999, &other, &[])?;
    assert_replied(&rt, &mut route, like, 1_499_999, &other, &[])?;
    assert_replied(
        &rt,
        &mut route,
        peer(5000),
        1_500_000,
        &other,
        &WRONG_SECRET,
    )?;
    assert_replied(&rt, &mut route, like, 1_500_000, &other, &[])
}

#[test]
fn a_refused_conclusion_derives_no_key(rt: HostRuntime) -> Result<(), Fail> {
    let alloc = rt.alloc();
    let mut route = secured(alloc, HORSE, None)?;
    let with = keyed(alloc, FIRST, &PUBLISHES, &KEYS)?;
    let other = keyed(alloc, FIRST, &PUBLISHES, &OTHER_KEYS)?;
    let mut end = Vec::new(alloc);
    push_hex(alloc, &mut end, &SHUTDOWN)?;
    let now = 1_000_000;
    assert_replied(&rt, &mut route, peer(5000), now, &with, &PUBLISHER_ANSWER)?;
    assert_replied(&rt, &mut route, peer(5001), now, &with, &STANDBY_ANSWER)?;
    for _ in 0..25 {
        assert_replied(&rt, &mut route, peer(5002), now, &other, &THIRD_PUBLISHER)?;
    }
    assert_eq!(rt; route.refused_for(RefusalCause::Peer), 25);
    assert_eq!(rt; route.refused_for(RefusalCause::Secret), 0);
    // Two keys were derived, so 18 more may be.
    assert_replied(&rt, &mut route, peer(5001), now, &end, &[])?;
    for _ in 0..18 {
        assert_replied(&rt, &mut route, peer(5002), now, &other, &WRONG_SECRET)?;
    }
    assert_replied(&rt, &mut route, peer(5002), now, &other, &[])?;
    assert_eq!(rt; route.refused_for(RefusalCause::Secret), 18);
    // A repeated conclusion needs none.
    assert_replied(&rt, &mut route, peer(5000), now, &with, &PUBLISHER_ANSWER)
}

#[test]
fn a_subscriber_that_opens_again_is_another_session(rt: HostRuntime) -> Result<(), Fail> {
    let alloc = rt.alloc();
    let mut route = secured(alloc, HORSE, LINE)?;
    let first = keyed(alloc, FIRST, &PUBLISHES, &KEYS)?;
    let second = keyed(alloc, READER, &REQUESTS, &LONG_KEYS)?;
    let mut end = Vec::new(alloc);
    push_hex(alloc, &mut end, &SHUTDOWN)?;
    let now = 1_000_000;
    assert_replied(&rt, &mut route, peer(5000), now, &first, &PUBLISHER_ANSWER)?;
    offer(&rt, &mut route, peer(5001), now, &second)?;
    assert_next(&rt, &mut route, peer(5001), &SUBSCRIBER_ANSWER)?;
    assert_next(&rt, &mut route, peer(5001), &KEY_REQUEST)?;
    assert_replied(&rt, &mut route, peer(5001), now, &end, &[])?;
    // Its first key is another, though passphrase, salt, cookie and port are those of before.
    offer(&rt, &mut route, peer(5001), now, &second)?;
    assert_next(&rt, &mut route, peer(5001), &SUBSCRIBER_ANSWER_AGAIN)?;
    assert_next(&rt, &mut route, peer(5001), &NEXT_KEY_REQUEST)?;
    assert!(rt; !route.waits());
    Ok(())
}

#[test]
fn a_role_without_a_passphrase_is_as_on_a_route_without_keys(rt: HostRuntime) -> Result<(), Fail> {
    let alloc = rt.alloc();
    let mut route = secured(alloc, None, LINE)?;
    let mut plain = studio(alloc)?;
    let publish = keyed(alloc, FIRST, &PUBLISHES, &[])?;
    let request = keyed(alloc, SECOND, &REQUESTS, &[])?;
    let clear: [&str; 2] = [
        "80000000000000000000000000000001000000050000000100000005000005dc00000400ffffffff0010000000000000",
        "0000000000000000000000000000000000020003000105000000003f00780078",
    ];
    assert_replied(&rt, &mut route, peer(5000), 1_000_000, &publish, &clear)?;
    assert_replied(&rt, &mut plain, peer(5000), 1_000_000, &publish, &clear)?;
    assert_replied(&rt, &mut route, peer(5001), 1_000_001, &request, &[])?;
    // Nobody looks at a message for a role without a passphrase.
    let mut fresh = secured(alloc, None, LINE)?;
    let with = keyed(alloc, FIRST, &PUBLISHES, &KEYS)?;
    assert_replied(&rt, &mut fresh, peer(5000), 1_000_000, &with, &clear)
}

/// Gives the route a datagram of these bytes.
pub(crate) fn offer(
    rt: &(impl AllocGlobal + Abort),
    route: &mut Route,
    from: Peer,
    moment: u64,
    bytes: &[u8],
) -> Result<(), Fail> {
    if bytes.len() < 16 || route.waits() || moment > 10_000_000 {
        return Err(Fail::from("a header, an early moment, and no reply that waits"));
    }
    let mut head = [0u8; 16];
    head.copy_from_slice(&bytes[..16]);
    let item = Item::Datagram {
        peer: from,
        moment,
        head,
        body: Vec::from_slice(rt.alloc(), &bytes[16..])?,
    };
    route.step(&item);
    Ok(())
}

/// Asserts the peer and the bytes of the reply that waits first.
pub(crate) fn assert_next(
    rt: &(impl AllocGlobal + Abort),
    route: &mut Route,
    to: Peer,
    wanted: &[&str],
) -> Result<(), Fail> {
    let mut answer = Vec::new(rt.alloc());
    push_hex(rt.alloc(), &mut answer, wanted)?;
    let mut out = [0u8; 1472];
    let mut place = Box::new(rt.alloc(), Reply::blank())?;
    assert!(rt; route.next_reply(&mut place));
    assert!(rt; place.peer == to);
    let len = place.packet.copy_to(&mut out);
    assert_eq!(rt; first_difference(&out[..len], &answer), None);
    Ok(())
}

/// Bytes in hexadecimal digits.
pub(crate) fn bytes_of(alloc: Global, text: &[&str]) -> Result<Vec<u8>, Fail> {
    let mut bytes = Vec::new(alloc);
    push_hex(alloc, &mut bytes, text)?;
    Ok(bytes)
}

/// The answer to a subscriber in clear, whose session opens in slot 1.
const CLEAR_SUBSCRIBER_ANSWER: [&str; 2] = [
    "80000000000000000000000000000002000000050000000100000009000005dc00000400ffffffff001000010000000000000000000000000000000000000000",
    "00020003000105000000003f00780078",
];

/// Opens the publisher's session, lets it renew its keys if it has a KMREQ, and asserts that this packet of it is sent to
/// a subscriber in clear.
fn assert_played(
    rt: &(impl AllocGlobal + Abort),
    renewal: Option<&[&str]>,
    packet: &str,
) -> Result<(), Fail> {
    let alloc = rt.alloc();
    let mut route = secured(alloc, HORSE, None)?;
    let first = keyed(alloc, FIRST, &PUBLISHES, &KEYS)?;
    let second = keyed(alloc, SECOND, &REQUESTS, &[])?;
    let data = bytes_of(alloc, &[packet])?;
    assert_replied(
        rt,
        &mut route,
        peer(5000),
        1_000_000,
        &first,
        &PUBLISHER_ANSWER,
    )?;
    if let Some(text) = renewal {
        let request = bytes_of(alloc, text)?;
        assert_replied(rt, &mut route, peer(5000), 1_002_000, &request, &REFRESHED)?;
    }
    assert_replied(rt, &mut route, peer(5000), 1_002_000, &data, &[])?;
    offer(rt, &mut route, peer(5001), 1_010_000, &second)?;
    assert_next(rt, &mut route, peer(5001), &CLEAR_SUBSCRIBER_ANSWER)?;
    assert_next(
        rt,
        &mut route,
        peer(5000),
        &[
            "80020000000000010000271000000001",
            "00000006000186a00000c350000003ff000000000000000000000000",
        ],
    )?;
    assert!(rt; !route.waits());
    route.step(&Item::Tick { moment: 1_121_000 });
    assert_next(
        rt,
        &mut route,
        peer(5000),
        &[
            "80020000000000020001d8a800000001",
            "00000006000186a00000c35000000400000000000000000000000000",
        ],
    )?;
    assert_next(
        rt,
        &mut route,
        peer(5001),
        &["00000009e00000010001b198000000026869"],
    )?;
    assert!(rt; !route.waits());
    Ok(())
}

#[test]
fn a_packet_of_a_publisher_is_decrypted(rt: HostRuntime) -> Result<(), Fail> {
    assert_played(&rt, None, "00000005e8000001000003e800100000ad56")
}

#[test]
fn a_packet_under_a_renewed_key_is_decrypted(rt: HostRuntime) -> Result<(), Fail> {
    assert_played(&rt, Some(&REFRESH), "00000005f0000001000003e8001000002d65")?;
    // The even key stays.
    assert_played(&rt, Some(&REFRESH), "00000005e8000001000003e800100000ad56")
}

#[test]
fn a_renewal_is_of_the_senders_own_session(rt: HostRuntime) -> Result<(), Fail> {
    let alloc = rt.alloc();
    let mut route = secured(alloc, HORSE, None)?;
    let first = keyed(alloc, FIRST, &PUBLISHES, &KEYS)?;
    let renewal = bytes_of(alloc, &REFRESH)?;
    let standby_renewal = bytes_of(alloc, &STANDBY_REFRESH)?;
    let data = bytes_of(alloc, &["00000005f0000001000003e8001000002d65"])?;
    let mut elsewhere = peer(5000);
    elsewhere.ip[15] = 2;
    let now = 1_002_000;
    for (from, wanted) in [
        (peer(5000), &PUBLISHER_ANSWER),
        (peer(5001), &STANDBY_ANSWER),
    ] {
        assert_replied(&rt, &mut route, from, 1_000_000, &first, wanted)?;
    }
    // To the session of another port, of another host, and in another slot.
    assert_replied(&rt, &mut route, peer(5001), now, &renewal, &[])?;
    assert_replied(&rt, &mut route, elsewhere, now, &renewal, &[])?;
    assert_replied(&rt, &mut route, peer(5000), now, &standby_renewal, &[])?;
    assert_replied(
        &rt,
        &mut route,
        peer(5001),
        now,
        &standby_renewal,
        &REFRESHED,
    )?;
    // The first session has no odd key yet.
    assert_replied(&rt, &mut route, peer(5000), now, &data, &[])?;
    offer(
        &rt,
        &mut route,
        peer(5000),
        1_010_000,
        &bytes_of(alloc, &["80010000000000000000271000100000"])?,
    )?;
    let mut place = Box::new(alloc, Reply::blank())?;
    assert!(rt; !route.next_reply(&mut place));
    Ok(())
}

#[test]
fn what_cannot_be_decrypted_is_not_received(rt: HostRuntime) -> Result<(), Fail> {
    let alloc = rt.alloc();
    let first = keyed(alloc, FIRST, &PUBLISHES, &KEYS)?;
    let second = keyed(alloc, SECOND, &REQUESTS, &[])?;
    // In clear, under the odd key, and under both.
    for text in [
        "00000005e0000001000003e8001000006869",
        "00000005f0000001000003e800100000ad56",
        "00000005f8000001000003e800100000ad56",
    ] {
        let mut route = secured(alloc, HORSE, None)?;
        let data = bytes_of(alloc, &[text])?;
        assert_replied(
            &rt,
            &mut route,
            peer(5000),
            1_000_000,
            &first,
            &PUBLISHER_ANSWER,
        )?;
        assert_replied(&rt, &mut route, peer(5000), 1_002_000, &data, &[])?;
        assert_replied(
            &rt,
            &mut route,
            peer(5001),
            1_003_000,
            &second,
            &CLEAR_SUBSCRIBER_ANSWER,
        )?;
        route.step(&Item::Tick { moment: 1_121_000 });
        let mut place = Box::new(alloc, Reply::blank())?;
        while route.next_reply(&mut place) {
            assert!(rt; place.peer == peer(5000));
        }
    }
    Ok(())
}

#[test]
fn a_publisher_renews_its_keys_during_its_session(rt: HostRuntime) -> Result<(), Fail> {
    let alloc = rt.alloc();
    let mut route = secured(alloc, HORSE, LINE)?;
    let first = keyed(alloc, FIRST, &PUBLISHES, &KEYS)?;
    let renewal = bytes_of(alloc, &REFRESH)?;
    let other = bytes_of(alloc, &OTHER_REFRESH)?;
    let salt = bytes_of(alloc, &OTHER_SALT)?;
    let now = 1_002_000;
    // Nobody has a session yet.
    assert_replied(&rt, &mut route, peer(5000), 1_000_000, &renewal, &[])?;
    assert_replied(
        &rt,
        &mut route,
        peer(5000),
        1_000_000,
        &first,
        &PUBLISHER_ANSWER,
    )?;
    assert_replied(&rt, &mut route, peer(5000), now, &renewal, &REFRESHED)?;
    assert_replied(&rt, &mut route, peer(5000), now, &renewal, &REFRESHED)?;
    assert_replied(&rt, &mut route, peer(5000), now, &other, &BAD_SECRET)?;
    assert_replied(&rt, &mut route, peer(5000), now, &salt, &NO_SECRET)?;
    // It isn't the session's peer that asks.
    assert_replied(&rt, &mut route, peer(5001), now, &renewal, &[])
}
