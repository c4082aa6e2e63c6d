//! Data packets that are encrypted where they stand. The keys and bytes are of an independent computation.

use crate::{Body, EncodedPacket, Kind, Packet, decode};
use srt_aes::RoundKeys;
use srt_types::{Msg26, PayloadRef, Seq31};
use std::test::Fail;

const SALT: [u8; 16] = [
    0xff, 0xee, 0xdd, 0xcc, 0xbb, 0xaa, 0x99, 0x88, 0x77, 0x66, 0x55, 0x44, 0x33, 0x22, 0x11, 0x00,
];

/// An odd and an even key, of 24 bytes.
const ODD: &str = "70148dbde4b9069409b001d28b068ead33a6aa8902f2d1ee";

const EVEN: &str = "6e339edca1b71b3d4e93cdf45a92b0048b67c6586034e085";

/// Returns the bytes of the data packet with message 1 and the payload `hi`, encrypted with this key.
fn assert_encrypted(
    rt: &(impl AllocGlobal + std::process::Abort),
    number: u32,
    again: bool,
    encryption: u8,
    key: &str,
    text: &str,
) -> Result<(), Fail> {
    let number = Seq31::new(number).ok_or("a number")?;
    let mut packet = EncodedPacket::new();
    packet.write(&Packet {
        stamp: 0x0001_b198,
        dest: 2,
        body: Body::Media {
            number,
            message: Msg26::first(),
            again,
            payload: PayloadRef { bytes: b"hi" },
        },
    });
    let key = hex::decode(rt.alloc(), key)?;
    if key.len() != 24 || encryption > 3 {
        return Err(Fail::from("a key of 24 bytes"));
    }
    let keys = RoundKeys::new(&key);
    packet.encrypt(encryption, &keys, &SALT);
    let wanted = hex::decode(rt.alloc(), text)?;
    assert_eq!(rt; packet.bytes(), wanted.as_slice());
    // what is encrypted stays as it is
    packet.encrypt(encryption, &keys, &SALT);
    assert_eq!(rt; packet.bytes(), wanted.as_slice());
    let read = decode(packet.bytes()).ok().ok_or("a packet")?;
    assert!(rt;
        matches!(
            read.kind,
            Kind::Data {
                encryption: 1 | 2,
                ..
            }
        )
    );
    Ok(())
}

#[test]
fn a_data_packet_is_encrypted(rt: HostRuntime) -> Result<(), Fail> {
    let text = "00000009f00000010001b198000000028957";
    assert_encrypted(&rt, 9, false, 2, ODD, text)
}

#[test]
fn a_packet_that_is_sent_again_has_the_same_payload(rt: HostRuntime) -> Result<(), Fail> {
    let text = "00000009f40000010001b198000000028957";
    assert_encrypted(&rt, 9, true, 2, ODD, text)
}

#[test]
fn the_even_key_has_the_other_field(rt: HostRuntime) -> Result<(), Fail> {
    let text = "01000009e80000010001b198000000026211";
    assert_encrypted(&rt, 0x0100_0009, false, 1, EVEN, text)
}

#[test]
fn other_packets_stay_as_they_are(rt: HostRuntime) -> Result<(), Fail> {
    let key = hex::decode(rt.alloc(), ODD)?;
    if key.len() != 24 {
        return Err(Fail::from("a key of 24 bytes"));
    }
    let keys = RoundKeys::new(&key);
    let mut packet = EncodedPacket::new();
    packet.encrypt(2, &keys, &SALT);
    assert!(rt; packet.bytes().is_empty());
    packet.write(&Packet {
        stamp: 1000,
        dest: 2,
        body: Body::DropRequest {
            message: Msg26::first(),
            first: Seq31::new(5).ok_or("a number")?,
            last: Seq31::new(6).ok_or("a number")?,
        },
    });
    packet.encrypt(2, &keys, &SALT);
    let wanted = hex::decode(
        rt.alloc(),
        "8007000000000001000003e8000000020000000500000006",
    )?;
    assert_eq!(rt; packet.bytes(), wanted.as_slice());
    Ok(())
}
