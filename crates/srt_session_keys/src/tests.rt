//! Rows computed by hand, and bytes from Python's hashlib and cryptography.

ghost use Rattle.std.specs.Prelude.{◌≡◌, ◌≤◌, ◌<◌, ◌+◌, IfSome};
ghost use Rattle.srt_session_keys.specs.Source.{pool_of};
ghost use Rattle.srt_session_keys.specs.Wrapping.{salt_of};

use crate::{DerivationLimiter, KeyAnswer, KeyPool, PublisherKeys, SubscriberKeys, WrappingKey};
use srt_hs::{KeyMessageRef, read_key_message};
use srt_packet::{Body, EncodedPacket, Kind, Packet, decode};
use srt_types::{Msg26, PayloadRef, Peer, Seq31};
use std::test::Fail;

/// A message that brings the even key 00 01 .. 0f, with the salt 00 11 .. ff and the passphrase "correct horse battery".
const EVEN_MESSAGE: [u8; 56] = [
    0x12, 0x20, 0x29, 0x01, 0x00, 0x00, 0x00, 0x00, 0x02, 0x00, 0x02, 0x00, 0x00, 0x00, 0x04, 0x04,
    0x00, 0x11, 0x22, 0x33, 0x44, 0x55, 0x66, 0x77, 0x88, 0x99, 0xaa, 0xbb, 0xcc, 0xdd, 0xee, 0xff,
    0x09, 0x7a, 0xd2, 0xa2, 0x96, 0x80, 0x2d, 0xd0, 0x3b, 0x3c, 0xad, 0x77, 0x8b, 0x2e, 0xf5, 0xec,
    0x61, 0x78, 0x26, 0x92, 0xf9, 0x55, 0x49, 0xe2,
];

/// One that brings the odd key 40 41 .. 4f, with the same salt and passphrase.
const ODD_MESSAGE: [u8; 56] = [
    0x12, 0x20, 0x29, 0x02, 0x00, 0x00, 0x00, 0x00, 0x02, 0x00, 0x02, 0x00, 0x00, 0x00, 0x04, 0x04,
    0x00, 0x11, 0x22, 0x33, 0x44, 0x55, 0x66, 0x77, 0x88, 0x99, 0xaa, 0xbb, 0xcc, 0xdd, 0xee, 0xff,
    0x5b, 0xe3, 0xc9, 0xf8, 0x42, 0x1c, 0x4e, 0xf9, 0x44, 0xb9, 0x73, 0x72, 0x71, 0xfe, 0xf7, 0x0c,
    0x08, 0xfb, 0xc1, 0x6e, 0x16, 0x7d, 0x9f, 0xbb,
];

/// One that brings both.
const BOTH_MESSAGE: [u8; 72] = [
    0x12, 0x20, 0x29, 0x03, 0x00, 0x00, 0x00, 0x00, 0x02, 0x00, 0x02, 0x00, 0x00, 0x00, 0x04, 0x04,
    0x00, 0x11, 0x22, 0x33, 0x44, 0x55, 0x66, 0x77, 0x88, 0x99, 0xaa, 0xbb, 0xcc, 0xdd, 0xee, 0xff,
    0x6f, 0xb3, 0x31, 0x70, 0xe3, 0x06, 0xec, 0x34, 0xdb, 0x41, 0x69, 0xbf, 0x93, 0x0e, 0x9d, 0x2a,
    0x98, 0x36, 0x31, 0x46, 0xc9, 0x25, 0x1e, 0x1c, 0x99, 0xa1, 0x28, 0x0c, 0xf6, 0x27, 0x12, 0xc3,
    0xd4, 0x56, 0xb5, 0xbd, 0xdf, 0x92, 0xcd, 0xe2,
];

/// A player's message, with a salt of its own and the passphrase "hold the line please".
const PLAYER_MESSAGE: [u8; 64] = [
    0x12, 0x20, 0x29, 0x01, 0x00, 0x00, 0x00, 0x00, 0x02, 0x00, 0x02, 0x00, 0x00, 0x00, 0x04, 0x06,
    0xff, 0xee, 0xdd, 0xcc, 0xbb, 0xaa, 0x99, 0x88, 0x77, 0x66, 0x55, 0x44, 0x33, 0x22, 0x11, 0x00,
    0x55, 0xd5, 0xc0, 0xa0, 0x40, 0x98, 0x09, 0x0a, 0xa9, 0x72, 0x87, 0xb4, 0xeb, 0xa8, 0x44, 0x3d,
    0x46, 0xd8, 0xba, 0x88, 0x12, 0x1e, 0xd8, 0x18, 0x7c, 0xff, 0xdf, 0x8e, 0x77, 0x0d, 0x98, 0x60,
];

/// The message of the first key that the gateway makes for it.
const FIRST_OWN_MESSAGE: [u8; 64] = [
    0x12, 0x20, 0x29, 0x02, 0x00, 0x00, 0x00, 0x00, 0x02, 0x00, 0x02, 0x00, 0x00, 0x00, 0x04, 0x06,
    0xff, 0xee, 0xdd, 0xcc, 0xbb, 0xaa, 0x99, 0x88, 0x77, 0x66, 0x55, 0x44, 0x33, 0x22, 0x11, 0x00,
    0xdc, 0x88, 0x93, 0x72, 0xe3, 0xba, 0xf5, 0xb1, 0xc5, 0x7a, 0xf3, 0x28, 0x35, 0x27, 0x36, 0xcf,
    0x9b, 0xe8, 0x9a, 0xa4, 0xfe, 0x24, 0x42, 0xe4, 0x2f, 0x29, 0x97, 0xe9, 0xfb, 0x2a, 0x84, 0xc5,
];

/// That of the second key.
const SECOND_OWN_MESSAGE: [u8; 64] = [
    0x12, 0x20, 0x29, 0x01, 0x00, 0x00, 0x00, 0x00, 0x02, 0x00, 0x02, 0x00, 0x00, 0x00, 0x04, 0x06,
    0xff, 0xee, 0xdd, 0xcc, 0xbb, 0xaa, 0x99, 0x88, 0x77, 0x66, 0x55, 0x44, 0x33, 0x22, 0x11, 0x00,
    0x7e, 0x6d, 0x4d, 0xad, 0xf0, 0xc9, 0xa2, 0x81, 0xb8, 0x71, 0xed, 0x36, 0xbf, 0x90, 0x40, 0xd0,
    0xa9, 0xae, 0x7f, 0xf5, 0xf5, 0x01, 0xab, 0xa3, 0xa4, 0x47, 0xda, 0xcd, 0x74, 0x90, 0x41, 0x64,
];

/// The wrapped key of the session that the player opens next.
const WRAP_OF_THE_NEXT_SESSION: [u8; 32] = [
    0xa2, 0x76, 0x00, 0x47, 0x5b, 0x06, 0x23, 0xa4, 0x1c, 0xfb, 0x11, 0x1d, 0xcf, 0xcd, 0xfb, 0xb5,
    0x71, 0x6f, 0x43, 0xe4, 0xcf, 0xea, 0x28, 0x28, 0xab, 0xc5, 0x15, 0x98, 0xa5, 0x74, 0x53, 0xc0,
];

#[test]
fn a_group_of_addresses_has_twenty_derivations_at_once(rt: HostRuntime) -> Result<(), Fail> {
    let mut limiter = DerivationLimiter::new();
    for _ in 0..20 {
        assert!(rt; limiter.admits(1_000_000, 7).is_some());
    }
    for (now, last_byte, wanted) in [
        (1_000_000, 7u8, false),
        (1_049_999, 8, false),
        (1_050_000, 8, true),
        (1_499_999, 7, false),
        (1_499_999, 71, false),
        (1_500_000, 71, true),
        (1_500_000, 7, false),
    ] {
        assert!(rt; limiter.admits(now, last_byte).is_some() == wanted);
    }
    Ok(())
}

/// The key that wraps, of a route that derives its first one.
fn derived(passphrase: &[u8], message: &KeyMessageRef<'_>) -> Option<WrappingKey>
    ensures { IfSome result (λ kek. salt_of kek ≡ message.now.salt) }
{
    let permit = DerivationLimiter::new().admits(1_000_000, 7)?;
    Some(WrappingKey::derive(permit, passphrase, message))
}

/// The keys of a session that opens with this message.
fn opened(passphrase: &[u8], message: &[u8]) -> Option<PublisherKeys> {
    match read_key_message(message) {
        Err(_) => None,
        Ok(read) => PublisherKeys::open(derived(passphrase, &read)?, &read),
    }
}

/// Whether the payload "hi" comes out of these two bytes.
fn reads_hi(keys: &mut PublisherKeys, encryption: u8, number: u32, bytes: [u8; 2]) -> bool {
    let mut payload = bytes;
    keys.decrypt(encryption, number, &mut payload) && payload == *b"hi"
}

#[test]
fn packets_are_decrypted_with_the_key_that_they_name(rt: HostRuntime) -> Result<(), Fail> {
    match opened(b"correct horse battery", &EVEN_MESSAGE) {
        None => assert!(rt; false),
        Some(mut keys) => {
            assert!(rt; reads_hi(&mut keys, 1, 5, [0xad, 0x56]));
            assert!(rt; !reads_hi(&mut keys, 1, 6, [0xad, 0x56]));
            for encryption in [0u8, 2, 3] {
                let mut payload = [0xad, 0x56];
                assert!(rt; !keys.decrypt(encryption, 5, &mut payload));
                assert!(rt; payload == [0xad, 0x56]);
            }
            assert!(rt; keys.undecrypted() == 3);
        }
    }
    assert!(rt; opened(b"correct horse batterz", &EVEN_MESSAGE).is_none());
    let mut changed = EVEN_MESSAGE;
    changed[55] = 0xe3;
    assert!(rt; opened(b"correct horse battery", &changed).is_none());
    Ok(())
}

/// Whether the bytes of a data packet are received as these, with this encryption field.
fn is_received(keys: &mut PublisherKeys, bytes: &[u8], encryption: u8, payload: &[u8]) -> bool {
    let mut place = [0; 1456];
    match decode(bytes) {
        Err(_) => false,
        Ok(packet) => {
            let read = keys.decrypt_packet(packet, &mut place);
            match read.kind {
                Kind::Data {
                    number: 5,
                    encryption: field,
                    payload: read,
                } => field == encryption && read.bytes == payload,
                _ => false,
            }
        }
    }
}

#[test]
fn packets_are_received_in_clear(rt: HostRuntime) -> Result<(), Fail> {
    match opened(b"correct horse battery", &EVEN_MESSAGE) {
        None => assert!(rt; false),
        Some(mut keys) => {
            let mut packet = [
                0, 0, 0, 5, 0xe8, 0, 0, 1, 0, 0, 3, 0xe8, 0, 0x10, 0, 0, 0xad, 0x56,
            ];
            assert!(rt; is_received(&mut keys, &packet, 0, b"hi"));
            assert!(rt; keys.undecrypted() == 0);
            // in clear, and under a key that the session hasn't
            packet[4] = 0xe0;
            assert!(rt; is_received(&mut keys, &packet, 3, &[0xad, 0x56]));
            packet[4] = 0xf0;
            assert!(rt; is_received(&mut keys, &packet, 3, &[0xad, 0x56]));
            packet[4] = 0xf8;
            assert!(rt; is_received(&mut keys, &packet, 3, &[0xad, 0x56]));
            assert!(rt; keys.undecrypted() == 3);
            let mut place = [0; 1456];
            let keep_alive = [0x80, 1, 0, 0, 0, 0, 0, 0, 0, 0, 3, 0xe8, 0, 0x10, 0, 0];
            let packet = decode(&keep_alive).ok().ok_or("a packet")?;
            let read = keys.decrypt_packet(packet, &mut place);
            assert!(rt; matches!(read.kind, Kind::KeepAlive) && read.dest == 0x0010_0000);
            assert!(rt; keys.undecrypted() == 3);
        }
    }
    Ok(())
}

#[test]
fn responses_are_those_of_libsrt(rt: HostRuntime) -> Result<(), Fail> {
    assert!(rt; KeyAnswer::Taken.response(&BOTH_MESSAGE) == &BOTH_MESSAGE[..]);
    assert!(rt; KeyAnswer::NoSecret.response(&BOTH_MESSAGE) == &[3, 0, 0, 0][..]);
    assert!(rt; KeyAnswer::BadSecret.response(&BOTH_MESSAGE) == &[4, 0, 0, 0][..]);
    Ok(())
}

#[test]
fn a_message_brings_keys_during_the_session(rt: HostRuntime) -> Result<(), Fail> {
    match opened(b"correct horse battery", &EVEN_MESSAGE) {
        None => assert!(rt; false),
        Some(mut keys) => {
            let mut changed = BOTH_MESSAGE;
            changed[71] = 0xe3;
            assert!(rt; keys.refresh(&changed) == KeyAnswer::BadSecret);
            changed = BOTH_MESSAGE;
            changed[16] = 0xff;
            assert!(rt; keys.refresh(&changed) == KeyAnswer::NoSecret);
            assert!(rt; keys.refresh(&BOTH_MESSAGE[..71]) == KeyAnswer::NoSecret);
            assert!(rt; !reads_hi(&mut keys, 2, 6, [0x8b, 0xae]));
            assert!(rt; keys.refresh(&ODD_MESSAGE) == KeyAnswer::Taken);
            assert!(rt; reads_hi(&mut keys, 2, 6, [0x8b, 0xae]));
            assert!(rt; reads_hi(&mut keys, 1, 5, [0xad, 0x56]));
            assert!(rt; keys.refresh(&BOTH_MESSAGE) == KeyAnswer::Taken);
            assert!(rt; reads_hi(&mut keys, 2, 6, [0x8b, 0xae]));
            assert!(rt; reads_hi(&mut keys, 1, 5, [0xad, 0x56]));
            keys.forget();
            assert!(rt; !reads_hi(&mut keys, 1, 5, [0xad, 0x56]));
        }
    }
    Ok(())
}

/// The player's address.
const PLAYER: Peer = Peer {
    ip: [0, 0, 0, 0, 0, 0, 0, 0, 0, 0, 0xff, 0xff, 127, 0, 0, 1],
    port: 5001,
};

/// The keys of the session that the player opens.
fn played(session: u32, pool: &mut KeyPool) -> Option<SubscriberKeys>
    requires { (pool_of pool.old).count < 1000 }
    ensures { (pool_of pool.new).count ≤ (pool_of pool.old).count + 1 }
{
    match read_key_message(&PLAYER_MESSAGE) {
        Err(_) => None,
        Ok(read) => {
            let kek = derived(b"hold the line please", &read)?;
            if kek.unwraps(&read) {
                Some(SubscriberKeys::open(kek, session, pool, 0x6e46_80bd, PLAYER))
            } else {
                None
            }
        }
    }
}

#[test]
fn a_subscriber_confirms_its_keys(rt: HostRuntime) -> Result<(), Fail> {
    let mut pool = KeyPool::new();
    match played(0x0010_0001, &mut pool) {
        None => assert!(rt; false),
        Some(mut keys) => {
            assert!(rt; !keys.confirm(&FIRST_OWN_MESSAGE));
            assert!(rt; keys.announce(0, 1_010_000));
            assert!(rt; keys.message() == &FIRST_OWN_MESSAGE[..]);
            assert!(rt; !keys.announce(0, 1_059_999));
            assert!(rt; keys.announce(0, 1_060_000));
            assert!(rt; !keys.is_given_up(6_009_999));
            assert!(rt; keys.is_given_up(6_010_000));
            assert!(rt; !keys.confirm(&PLAYER_MESSAGE));
            assert!(rt; !keys.confirm(&[4, 0, 0, 0]));
            assert!(rt; !keys.may_send(0));
            assert!(rt; keys.confirm(&FIRST_OWN_MESSAGE));
            assert!(rt; !keys.is_given_up(9_000_000));
            assert!(rt; keys.may_send(16_777_215) && !keys.may_send(16_777_216));
            assert!(rt; !keys.announce(16_711_679, 9_000_000));
            assert!(rt; keys.announce(16_711_680, 9_000_000));
            assert!(rt; keys.message() == &SECOND_OWN_MESSAGE[..]);
            assert!(rt; !keys.confirm(&FIRST_OWN_MESSAGE));
            assert!(rt; keys.confirm(&SECOND_OWN_MESSAGE));
            assert!(rt; keys.may_send(16_777_216));
        }
    }
    Ok(())
}

/// The player's first packet, the same sent again, and one of the second key.
const FIRST_PACKET: [u8; 18] = [
    0, 0, 0, 9, 0xf0, 0, 0, 1, 0, 1, 0xb1, 0x98, 0, 0, 0, 2, 0x89, 0x57,
];

const FIRST_PACKET_AGAIN: [u8; 18] = [
    0, 0, 0, 9, 0xf4, 0, 0, 1, 0, 1, 0xb1, 0x98, 0, 0, 0, 2, 0x89, 0x57,
];

const PACKET_OF_THE_SECOND_KEY: [u8; 18] = [
    1, 0, 0, 9, 0xe8, 0, 0, 1, 0, 1, 0xb1, 0x98, 0, 0, 0, 2, 0x62, 0x11,
];

/// The data packet to the player with message 1 and the payload "hi", in clear.
fn media(number: u32, again: bool) -> Result<EncodedPacket, Fail> {
    let mut packet = EncodedPacket::new();
    packet.write(&Packet {
        stamp: 0x0001_b198,
        dest: 2,
        body: Body::Media {
            number: Seq31::new(number).ok_or("a number")?,
            message: Msg26::first(),
            again,
            payload: PayloadRef { bytes: b"hi" },
        },
    });
    Ok(packet)
}

#[test]
fn a_subscriber_has_keys_of_its_own(rt: HostRuntime) -> Result<(), Fail> {
    let mut pool = KeyPool::new();
    match played(0x0010_0001, &mut pool) {
        None => assert!(rt; false),
        Some(mut keys) => {
            assert!(rt; keys.announce(0, 1_010_000));
            if keys.confirm(&FIRST_OWN_MESSAGE) && keys.announce(16_711_680, 9_000_000) {
                let mut packet = media(9, false)?;
                keys.encrypt_packet(0, &mut packet);
                assert!(rt; packet.bytes() == &FIRST_PACKET[..]);
                packet = media(9, true)?;
                keys.encrypt_packet(0, &mut packet);
                assert!(rt; packet.bytes() == &FIRST_PACKET_AGAIN[..]);
                packet = media(0x0100_0009, false)?;
                keys.encrypt_packet(16_777_216, &mut packet);
                assert!(rt; packet.bytes() == &PACKET_OF_THE_SECOND_KEY[..]);
            }
        }
    }
    match played(0x0010_0101, &mut pool) {
        None => assert!(rt; false),
        Some(mut keys) => {
            assert!(rt; keys.announce(0, 1_015_000));
            assert!(rt; keys.message().ends_with(&WRAP_OF_THE_NEXT_SESSION));
            keys.forget();
            assert!(rt; !keys.may_send(0));
        }
    }
    Ok(())
}
