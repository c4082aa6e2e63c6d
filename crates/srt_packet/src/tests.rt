//! Packets of each kind with their bytes, encoded and decoded, and bytes with each fault.

ghost use Rattle.std.specs.Prelude.{◌≡◌};
ghost use Rattle.srt_packet.specs.Text.{IsWritable};

mod encryption;
mod keys;

use crate::{Body, EncodedPacket, Kind, Packet, PacketFault, Rates, decode, decode_parts, encode};
use arrayvec::ArrayVec;
use srt_types::{Msg26, PayloadRef, Seq31};
use std::process::Abort;
use std::test::Fail;

fn number(word: u32) -> Result<Seq31, Fail> {
    match Seq31::new(word) {
        Some(number) => Ok(number),
        None => Err(Fail::from("a word with its top bit set")),
    }
}

/// Asserts that `encode` writes these bytes, and that an `EncodedPacket` with a longer packet before also does. Its
/// content then reads as a packet.
fn assert_written(
    rt: &(impl AllocGlobal + Abort),
    packet: &Packet<'_>,
    text: &str,
) -> Result<(), Fail>
    requires { IsWritable packet.now.body }
{
    let wanted = hex::decode(rt.alloc(), text)?;
    let mut out = [0xaau8; 1472];
    let len = encode(packet, &mut out);
    assert_eq!(rt; &out[..len], wanted.as_slice());
    let mut encoded = EncodedPacket::new();
    assert!(rt; encoded.bytes().is_empty());
    let payload = PayloadRef { bytes: &[7; 1456] };
    encoded.write(&Packet {
        stamp: 1,
        dest: 2,
        body: Body::Media {
            number: number(3)?,
            message: Msg26::first(),
            again: true,
            payload,
        },
    });
    assert_eq!(rt; encoded.bytes().len(), 1472);
    encoded.write(packet);
    assert_eq!(rt; encoded.bytes(), wanted.as_slice());
    assert!(rt; decode(encoded.bytes()).is_ok());
    let mut copy = [0xaau8; 1472];
    assert_eq!(rt; encoded.copy_to(&mut copy), len);
    assert!(rt; copy == out);
    Ok(())
}

/// Returns the first 16 bytes, and the bytes after them.
fn split(bytes: &[u8]) -> Option<([u8; 16], &[u8])> {
    if bytes.len() < 16 {
        return None;
    }
    let mut head = [0u8; 16];
    head.copy_from_slice(&bytes[..16]);
    Some((head, &bytes[16..]))
}

fn to(stamp: u32, dest: u32, body: Body<'_>) -> Packet<'_>
    ensures { result.body ≡ body.entry }
{
    Packet { stamp, dest, body }
}

#[test]
fn data_is_written(rt: HostRuntime) -> Result<(), Fail> {
    for (again, text) in [
        (false, "00000009e00000010001b198000000026869"),
        (true, "00000009e40000010001b198000000026869"),
    ] {
        let body = Body::Media {
            number: number(9)?,
            message: Msg26::first(),
            again,
            payload: PayloadRef { bytes: b"hi" },
        };
        assert_written(&rt, &to(111_000, 2, body), text)?;
    }
    Ok(())
}

#[test]
fn a_handshake_is_written(rt: HostRuntime) -> Result<(), Fail> {
    let text =
        "80000000000000000000000000000001000000050000000100000005000005dc00000400ffffffff0010000000000000000000000000000000000000000000000002000300010500\
        0000003f00780078";
    let bytes = hex::decode(rt.alloc(), text)?;
    let mut info: ArrayVec<u8, 192> = ArrayVec::new();
    for byte in split(&bytes).ok_or("a header")?.1 {
        if !info.is_full() {
            info.push(*byte);
        }
    }
    assert_written(&rt, &to(0, 1, Body::Handshake(info)), text)
}

#[test]
fn acknowledgements_are_written(rt: HostRuntime) -> Result<(), Fail> {
    let full = Body::FullAck {
        number: 1,
        point: number(6)?,
        round_trip: 100_000,
        variance: 50_000,
        available: 1023,
        rates: Rates {
            packets: 16_000,
            capacity: 100_000,
            bytes: 23_296_000,
        },
    };
    assert_written(
        &rt,
        &to(10_000, 1, full),
        "80020000000000010000271000000001\
        00000006000186a00000c350000003ff00003e80000186a001637800",
    )?;
    let light = Body::LightAck { point: number(64)? };
    assert_written(
        &rt,
        &to(9000, 1, light),
        "8002000000000000000023280000000100000040",
    )?;
    assert_written(
        &rt,
        &to(10_000, 1, Body::AckAck { number: 2 }),
        "80060000000000020000271000000001",
    )
}

#[test]
fn a_loss_report_is_written(rt: HostRuntime) -> Result<(), Fail> {
    let mut losses: ArrayVec<u32, 64> = ArrayVec::new();
    losses.push(0x8000_0005);
    losses.push(7);
    losses.push(9);
    assert_written(
        &rt,
        &to(1_000_000, 2, Body::Nak { losses }),
        "8003000000000000000f424000000002800000050000000700000009",
    )
}

#[test]
fn short_packets_are_written(rt: HostRuntime) -> Result<(), Fail> {
    assert_written(
        &rt,
        &to(1_000_000, 2, Body::KeepAlive),
        "8001000000000000000f424000000002",
    )?;
    assert_written(
        &rt,
        &to(1_000_000, 2, Body::Shutdown),
        "8005000000000000000f424000000002",
    )?;
    let dropped = Body::DropRequest {
        message: Msg26::first(),
        first: number(9)?,
        last: number(9)?,
    };
    assert_written(
        &rt,
        &to(2_000_001, 2, dropped),
        "8007000000000001001e8481000000020000000900000009",
    )
}

/// Returns the fault of these bytes, which must be the same for the whole datagram and for its two parts.
fn fault_of(rt: &(impl AllocGlobal + Abort), text: &str) -> Result<PacketFault, Fail> {
    let bytes = hex::decode(rt.alloc(), text)?;
    let whole = decode(&bytes).err().ok_or("no packet")?;
    let (head, body) = split(&bytes).ok_or("a header")?;
    assert_eq!(rt; decode_parts(&head, body).err(), Some(whole));
    Ok(whole)
}

#[test]
fn under_16_bytes_are_short(rt: HostRuntime) {
    assert_eq!(rt; decode(&[]).err(), Some(PacketFault::Short));
    assert_eq!(rt; decode(&[0xff; 15]).err(), Some(PacketFault::Short));
}

#[test]
fn each_fault_is_found(rt: HostRuntime) -> Result<(), Fail> {
    for (text, fault) in [
        ("00000000e00000010000000000200000", PacketFault::NoPayload),
        ("80090000000000000000000000200000", PacketFault::UnknownType),
        ("fffe0000000000000000000000200000", PacketFault::UnknownType),
        (
            "80020000000000010000000000200000000005",
            PacketFault::ShortControl,
        ),
        (
            "80030000000000000000000000200000000005",
            PacketFault::ShortControl,
        ),
        (
            "8007000000000001000000000020000000000005000000",
            PacketFault::ShortControl,
        ),
    ] {
        assert_eq!(rt; fault_of(&rt, text)?, fault, "at {text}");
    }
    Ok(())
}

#[test]
fn too_many_bytes_are_found_before_other_faults(rt: HostRuntime) -> Result<(), Fail> {
    let mut bytes = [0xffu8; 1473];
    assert_eq!(rt; decode(&bytes).err(), Some(PacketFault::Long));
    assert!(rt; decode(&bytes[..1472]).is_ok());
    bytes[1] = 0xfe;
    assert_eq!(rt; decode(&bytes).err(), Some(PacketFault::Long));
    assert_eq!(rt;
        decode_parts(&[0xff; 16], &bytes[16..]).err(),
        Some(PacketFault::Long)
    );
    assert_eq!(rt;
        decode(&bytes[..1472]).err(),
        Some(PacketFault::UnknownType)
    );
    Ok(())
}

#[test]
fn data_is_read(rt: HostRuntime) -> Result<(), Fail> {
    // As libsrt retransmits it: a single packet, not in order; then with an even key.
    for (text, key) in [
        ("00000009c400000100000102000000026869", 0),
        ("00000009cc00000100000102000000026869", 1),
    ] {
        let bytes = hex::decode(rt.alloc(), text)?;
        let read = decode(&bytes).ok().ok_or("a packet")?;
        assert_eq!(rt; (read.stamp, read.dest), (0x102, 2));
        match read.kind {
            Kind::Data {
                number,
                encryption,
                payload,
            } => {
                assert_eq!(rt; (number, encryption), (9, key));
                assert_eq!(rt; payload.bytes, b"hi".as_slice());
            }
            _ => return Err(Fail::from("no data")),
        }
    }
    Ok(())
}

/// Returns the name of a kind, its numbers, and the number of bytes after the header.
fn told(kind: Kind<'_>) -> (&'static str, [u32; 3], usize) {
    match kind {
        Kind::Data {
            number,
            payload,
            ..
        } => ("data", [number, 0, 0], payload.bytes.len()),
        Kind::Handshake { info } => ("handshake", [0; 3], info.len()),
        Kind::KeepAlive => ("keep-alive", [0; 3], 0),
        Kind::Ack { number, info } => ("ack", [number, 0, 0], info.len()),
        Kind::Nak { info } => ("nak", [0; 3], info.len()),
        Kind::CongestionWarning => ("congestion", [0; 3], 0),
        Kind::Shutdown => ("shutdown", [0; 3], 0),
        Kind::AckAck { number } => ("ackack", [number, 0, 0], 0),
        Kind::DropRequest {
            message,
            first,
            last,
        } => ("drop", [message, first, last], 0),
        Kind::PeerError => ("error", [0; 3], 0),
        Kind::UserDefined => ("user", [0; 3], 0),
    }
}

#[test]
fn each_control_packet_is_read(rt: HostRuntime) -> Result<(), Fail> {
    for (text, name, numbers, len) in [
        ("80000000000000000000000100000002", "handshake", [0; 3], 0),
        (
            "8001000000000000000000010000000200000000",
            "keep-alive",
            [0; 3],
            0,
        ),
        (
            "8002000000000007000000010000000200000040",
            "ack",
            [7, 0, 0],
            4,
        ),
        (
            "800300000000000000000001000000020000000500",
            "nak",
            [0; 3],
            5,
        ),
        ("80040000000000000000000100000002", "congestion", [0; 3], 0),
        ("8005ffff000000000000000100000002", "shutdown", [0; 3], 0),
        ("80060000000000070000000100000002", "ackack", [7, 0, 0], 0),
        (
            "800700000000000300000001000000020000000580000006ff",
            "drop",
            [3, 5, 0x8000_0006],
            0,
        ),
        ("80080000000000000000000100000002", "error", [0; 3], 0),
        ("ffff1234000000000000000100000002", "user", [0; 3], 0),
    ] {
        let bytes = hex::decode(rt.alloc(), text)?;
        let whole = decode(&bytes).ok().ok_or("a packet")?;
        assert_eq!(rt; (whole.stamp, whole.dest), (1, 2));
        assert_eq!(rt; told(whole.kind), (name, numbers, len), "at {text}");
        let (head, body) = split(&bytes).ok_or("a header")?;
        let parts = decode_parts(&head, body).ok().ok_or("a packet")?;
        assert_eq!(rt; told(parts.kind), (name, numbers, len), "at {text}");
    }
    Ok(())
}
