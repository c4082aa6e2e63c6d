//! Packets that bring key material messages, as libsrt sends them in both directions.

use crate::{
    EncodedPacket, KeyPacketKind, Kind, decode, decode_key_packet, decode_key_parts,
    encode_key_packet,
};
use std::test::Fail;

/// A KMREQ of libsrt's sender, and the KMRSP of its receiver.
const REQUEST: &str =
    "ffff0003000000000004123b0edeb29b12202903000000000200020000000404e00a1edda4eb360e727d6915\
     16da5ff8e810763a8be248e02841dce26fe88df15c0e0ebf4f8adff75003d2e67592e0ab740b340a2cbf5ceb";

const RESPONSE: &str =
    "ffff0004000000000003b08300d0bd3b12202903000000000200020000000404e00a1edda4eb360e727d6915\
     16da5ff8e810763a8be248e02841dce26fe88df15c0e0ebf4f8adff75003d2e67592e0ab740b340a2cbf5ceb";

/// Whether the bytes are read as this packet, and written for it again.
fn is_both_ways(bytes: &[u8], stamp: u32, dest: u32, kind: KeyPacketKind) -> bool {
    let Some(packet) = decode_key_packet(bytes) else {
        return false;
    };
    if packet.stamp != stamp {
        return false;
    }
    if packet.dest != dest {
        return false;
    }
    if packet.kind != kind {
        return false;
    }
    if packet.info.len() > 1456 {
        return false;
    }
    let before = [0x55; 1472];
    let mut out = before;
    let len = encode_key_packet(&packet, &mut out);
    let mut encoded = EncodedPacket::new();
    encoded.write_key_packet(&packet);
    if encoded.bytes() != bytes {
        return false;
    }
    out[..len] == bytes[..] && out[len..] == before[len..]
}

/// Whether the first 16 bytes and those after them are read as the whole is.
fn is_read_in_parts(bytes: &[u8]) -> bool {
    if bytes.len() < 16 {
        return true;
    }
    let mut head = [0; 16];
    head.copy_from_slice(&bytes[..16]);
    match (
        decode_key_parts(&head, &bytes[16..]),
        decode_key_packet(bytes),
    ) {
        (None, None) => true,
        (Some(parts), Some(whole)) => {
            parts.stamp == whole.stamp
                && parts.dest == whole.dest
                && parts.kind == whole.kind
                && parts.info == whole.info
        }
        _ => false,
    }
}

#[test]
fn requests_and_responses_are_read_and_written(rt: HostRuntime) -> Result<(), Fail> {
    let request = hex::decode(rt.alloc(), REQUEST)?;
    assert!(rt; is_both_ways(&request, 0x4_123b, 0x0ede_b29b, KeyPacketKind::Request));
    let response = hex::decode(rt.alloc(), RESPONSE)?;
    assert!(rt; is_both_ways(&response, 0x3_b083, 0x00d0_bd3b, KeyPacketKind::Response));
    assert!(rt; is_read_in_parts(&request));
    assert!(rt; is_read_in_parts(&response));
    // a word of failure, as the gateway sends it
    let failure = hex::decode(rt.alloc(), "ffff000400000000000007d00000000104000000")?;
    assert!(rt; is_both_ways(&failure, 2000, 1, KeyPacketKind::Response));
    Ok(())
}

#[test]
fn they_are_user_defined_for_others(rt: HostRuntime) -> Result<(), Fail> {
    let request = hex::decode(rt.alloc(), REQUEST)?;
    let packet = decode(&request).ok().ok_or("a packet")?;
    assert!(rt; packet.stamp == 0x4_123b);
    assert!(rt; matches!(packet.kind, Kind::UserDefined));
    Ok(())
}

#[test]
fn other_packets_bring_no_keys(rt: HostRuntime) -> Result<(), Fail> {
    for text in [
        "ffff0002000000000004123b0edeb29b12202903",
        "ffff0005000000000004123b0edeb29b12202903",
        "ffff0000000000000004123b0edeb29b12202903",
        "80000003000000000004123b0edeb29b12202903",
        "7fff0003000000000004123b0edeb29b12202903",
        "ffff0003000000000004123b0edeb2",
        "",
    ] {
        let bytes = hex::decode(rt.alloc(), text)?;
        assert!(rt; decode_key_packet(&bytes).is_none());
        assert!(rt; is_read_in_parts(&bytes));
    }
    let mut long = [0; 1473];
    long[0] = 0xff;
    long[1] = 0xff;
    long[3] = 3;
    assert!(rt; decode_key_packet(&long).is_none());
    assert!(rt; decode_key_packet(&long[..1472]).is_some());
    assert!(rt; decode_key_packet(&long[..16]).is_some());
    assert!(rt; is_read_in_parts(&long));
    assert!(rt; is_read_in_parts(&long[..1472]));
    Ok(())
}
