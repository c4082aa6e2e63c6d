//! The keys of a route's sessions. The key material messages were made by another implementation of RFC 3394 and RFC 8018
//! from the passphrases here.

use crate::key_request_reading::{brought_in, cookie_in};
use crate::route_keys::RouteKeys;
use crate::slot_keys::{KeyOpening, KeyVerdict, SlotKeys};
use crate::tests::{FIRST, PUBLISHES, entry, peer};
use srt_samples::conclusion;
use srt_session_keys::{DerivationLimiter, KeyPool};
use srt_types::{Mode, Peer, Role};
use std::alloc::Global;
use std::process::Abort;
use std::test::Fail;

/// A KMREQ block with a key of 16 bytes, wrapped under the passphrase of publishers.
const KEYS: &str =
    "0003000e1220290100000000020002000000040400112233445566778899aabbccddeeff097ad2a296802dd03b3cad778b2ef5ec61782692f95549e2";

/// The same, whose last byte is another.
const OTHER_KEYS: &str =
    "0003000e1220290100000000020002000000040400112233445566778899aabbccddeeff097ad2a296802dd03b3cad778b2ef5ec61782692f95549e3";

/// The same with the cipher 3, which there isn't.
const OTHER_CIPHER: &str =
    "0003000e1220290100000000030002000000040400112233445566778899aabbccddeeff097ad2a296802dd03b3cad778b2ef5ec61782692f95549e2";

/// A KMREQ block with a key of 24 bytes, wrapped under the passphrase of subscribers.
const LONG_KEYS: &str =
    "0003001012202901000000000200020000000406ffeeddccbbaa9988776655443322110055d5c0a04098090aa97287b4eba8443d46d8ba88121ed8187cffdf8e770d9860";

/// The wrapped key of the session that this subscriber opens after that.
const NEXT_WRAP: &str = "a27600475b0623a41cfb111dcfcdfbb5716f43e4cfea2828abc51598a57453c0";

/// The message of the first key that the gateway makes for that subscriber.
const OWN_MESSAGE: &str =
    "12202902000000000200020000000406ffeeddccbbaa99887766554433221100dc889372e3baf5b1c57af328352736cf9be89aa4fe2442e42f2997e9fb2a84c5";

/// A handshake, the bytes after a packet's header, with these blocks behind those of a publisher.
fn handshake(alloc: Global, blocks: &[&str]) -> Result<Vec<u8>, Fail> {
    let packet = conclusion(FIRST, &PUBLISHES).bytes(alloc)?;
    if packet.len() < 16 {
        return Err(Fail::from("a header"));
    }
    let mut bytes = Vec::from_slice(alloc, &packet[16..])?;
    for block in blocks {
        bytes.extend_from_slice(&hex::decode(alloc, block)?)?;
    }
    Ok(bytes)
}

#[test]
fn a_conclusion_brings_one_message_that_reads(rt: HostRuntime) -> Result<(), Fail> {
    let alloc = rt.alloc();
    let wanted = hex::decode(alloc, KEYS)?;
    let one = handshake(alloc, &[KEYS])?;
    assert_eq!(rt; cookie_in(&one), FIRST.cookie);
    match brought_in(&one) {
        Some(brought) => {
            assert!(rt; wanted.len() == 60);
            assert!(rt; brought.contents == &wanted[4..]);
            assert_eq!(rt; brought.message.key_length, 16);
        }
        None => return Err(Fail::from("one message")),
    }
    for blocks in [&[] as &[&str], &[KEYS, KEYS], &[OTHER_CIPHER]] {
        let bytes = handshake(alloc, blocks)?;
        assert!(rt; brought_in(&bytes).is_none());
    }
    Ok(())
}

/// The keys of a route whose publishers and subscribers have these passphrases.
fn secured(alloc: Global, publish: &str, request: Option<&str>) -> Result<RouteKeys, Fail> {
    let mut entry = entry(alloc, "studio", Mode::Live)?;
    entry.access.publish.passphrase = Some(String::from_str(alloc, publish)?);
    if let Some(passphrase) = request {
        entry.access.request.passphrase = Some(String::from_str(alloc, passphrase)?);
    }
    Ok(RouteKeys::open(alloc, &entry)?)
}

const HORSE: &str = "correct horse battery";

const LINE: Option<&str> = Some("hold the line please");

/// An opening in slot 1 at this time.
fn opening(clock: u64, peer: Peer, role: Role) -> KeyOpening {
    KeyOpening {
        clock,
        peer,
        cookie: 0x6e46_80bd,
        role,
        id: 0x10_0001,
        slot: 1,
    }
}

/// Opens a session with these keys: 0 if too many were derived, 1 if they can't be unwrapped, 2 if it opens.
fn opened(
    rt: &(impl AllocGlobal + Abort),
    keys: &mut RouteKeys,
    opening: KeyOpening,
    block: &str,
) -> Result<u32, Fail> {
    let bytes = handshake(rt.alloc(), &[block])?;
    let Some(brought) = brought_in(&bytes) else {
        return Err(Fail::from("one message"));
    };
    if keys.slots.len() < 5 || opening.slot >= 5 || opening.clock > 10_000_000 {
        return Err(Fail::from("five slots, and an early time"));
    }
    Ok(match keys.open_session(opening, &brought) {
        KeyVerdict::TooMany => 0,
        KeyVerdict::WrongSecret => 1,
        KeyVerdict::Opened => 2,
    })
}

#[test]
fn a_publisher_opens_with_its_own_keys(rt: HostRuntime) -> Result<(), Fail> {
    let mut keys = secured(rt.alloc(), HORSE, None)?;
    assert!(rt; keys.are_for(5));
    assert!(rt; keys.secures(Role::Publish));
    assert!(rt; !keys.secures(Role::Request));
    let at = opening(1_000_000, peer(5000), Role::Publish);
    assert_eq!(rt; opened(&rt, &mut keys, at, OTHER_KEYS)?, 1);
    assert_eq!(rt; opened(&rt, &mut keys, at, LONG_KEYS)?, 1);
    assert_eq!(rt; opened(&rt, &mut keys, at, KEYS)?, 2);
    let wanted = hex::decode(rt.alloc(), KEYS)?;
    if keys.slots.len() < 5 || wanted.len() < 4 {
        return Err(Fail::from("five slots, and a block"));
    }
    assert!(rt; keys.slots[1].is_held);
    match &keys.slots[1].keys {
        SlotKeys::Publisher { request, .. } => assert!(rt;
            request.bytes.as_slice() == &wanted[4..]
        ),
        _ => return Err(Fail::from("the keys of a publisher")),
    }
    assert!(rt; !keys.slots[0].is_held);
    keys.clear(1);
    assert!(rt; keys.slots.len() == 5 && !keys.slots[1].is_held);
    Ok(())
}

#[test]
fn a_subscriber_opens_with_keys_of_the_gateway(rt: HostRuntime) -> Result<(), Fail> {
    let mut keys = secured(rt.alloc(), HORSE, LINE)?;
    let at = opening(1_010_000, peer(5001), Role::Request);
    assert_eq!(rt; opened(&rt, &mut keys, at, KEYS)?, 1);
    assert_eq!(rt; opened(&rt, &mut keys, at, LONG_KEYS)?, 2);
    if keys.slots.len() < 5 {
        return Err(Fail::from("five slots"));
    }
    match &mut keys.slots[1].keys {
        SlotKeys::Subscriber { keys, .. } => {
            assert!(rt; keys.announce(0, 1_010_000));
            assert!(rt; keys.message() == &hex::decode(rt.alloc(), OWN_MESSAGE)?[..]);
        }
        _ => return Err(Fail::from("the keys of a subscriber")),
    }
    Ok(())
}

#[test]
fn a_subscriber_that_opens_again_has_another_key(rt: HostRuntime) -> Result<(), Fail> {
    let mut keys = secured(rt.alloc(), HORSE, LINE)?;
    let mut at = opening(1_010_000, peer(5001), Role::Request);
    assert_eq!(rt; opened(&rt, &mut keys, at, LONG_KEYS)?, 2);
    at.id = 0x10_0101;
    assert_eq!(rt; opened(&rt, &mut keys, at, LONG_KEYS)?, 2);
    if keys.slots.len() < 5 {
        return Err(Fail::from("five slots"));
    }
    match &mut keys.slots[1].keys {
        SlotKeys::Subscriber { keys, .. } => {
            assert!(rt; keys.announce(0, 1_015_000));
            let message = keys.message();
            assert!(rt; message.len() == 64);
            assert!(rt; &message[32..] == &hex::decode(rt.alloc(), NEXT_WRAP)?[..]);
        }
        _ => return Err(Fail::from("the keys of a subscriber")),
    }
    Ok(())
}

/// The keys of a route that derived 20 keys at one time, for callers whose addresses end in 1.
fn exhausted(alloc: Global) -> Result<RouteKeys, Fail> {
    let keys = secured(alloc, HORSE, None)?;
    let mut limiter = DerivationLimiter::new();
    for _ in 0..20 {
        limiter.admits(1_000_000, 1);
    }
    Ok(RouteKeys {
        publish: keys.publish,
        request: keys.request,
        limiter,
        pool: KeyPool::new(),
        slots: keys.slots,
    })
}

#[test]
fn derivations_are_limited(rt: HostRuntime) -> Result<(), Fail> {
    let mut keys = exhausted(rt.alloc())?;
    let mut elsewhere = peer(5000);
    elsewhere.ip[15] = 2;
    let mut alike = peer(5000);
    alike.ip[15] = 65;
    for (clock, from, wanted) in [
        (1_000_000, peer(5000), 0),
        (1_049_999, elsewhere, 0),
        (1_050_000, elsewhere, 1),
        (1_499_999, peer(5000), 0),
        (1_500_000, peer(5000), 1),
        (1_500_000, alike, 0),
    ] {
        let at = opening(clock, from, Role::Publish);
        assert_eq!(rt; opened(&rt, &mut keys, at, OTHER_KEYS)?, wanted);
    }
    Ok(())
}

#[test]
fn a_route_without_a_passphrase_has_no_slots(rt: HostRuntime) -> Result<(), Fail> {
    let entry = entry(rt.alloc(), "studio", Mode::Live)?;
    let keys = RouteKeys::open(rt.alloc(), &entry)?;
    assert_eq!(rt; keys.slots.len(), 0);
    assert!(rt; !keys.are_for(5));
    Ok(())
}
