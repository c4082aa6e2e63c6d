//! Each kind of sample against bytes from outside. The handshakes are those of libsrt 1.5.1 and ffmpeg, as captured.
//! The others were computed by Python's struct.pack, field by field from the diagrams of the draft (section 3).

use crate::{
    Acknowledged, Block, Caller, Dice, Difference, Field, Kind, Loss, Offer, Outline, Sample, ack,
    ack_ack, conclusion, conclusion_answer, data_packet, drop_request, first_difference, full_ack,
    induction, keep_alive, light_ack, nak, refusal, shutdown,
};
use std::process::Abort;
use std::test::Fail;

/// Asserts the bytes of a sample.
fn assert_bytes(
    rt: &(impl AllocGlobal + Abort),
    sample: Sample<'_>,
    text: &str,
) -> Result<(), Fail> {
    let wanted = hex::decode(rt.alloc(), text)?;
    let bytes = sample.bytes(rt.alloc())?;
    assert_eq!(rt; bytes.as_slice(), wanted.as_slice());
    assert_eq!(rt; first_difference(&bytes, &wanted), None);
    Ok(())
}

/// Returns an HSREQ of libsrt 1.5.1.
fn offer<'a>(flags: u32, receiver_ms: u16, sender_ms: u16) -> Block<'a> {
    Block::Request(Offer {
        version: 0x1_0501,
        flags,
        receiver_ms,
        sender_ms,
    })
}

#[test]
fn data_packets(rt: HostRuntime) -> Result<(), Fail> {
    let packet = data_packet(9).stamp(111_000).to(2).payload(b"hi");
    assert_bytes(&rt, packet, "00000009c00000010001b198000000026869")?;
    // Retransmitted.
    let again = packet.flags(0xc400_0001);
    assert_bytes(&rt, again, "00000009c40000010001b198000000026869")
}

#[test]
fn packets_without_a_list(rt: HostRuntime) -> Result<(), Fail> {
    let alive = keep_alive().stamp(1_000).to(2);
    assert_bytes(&rt, alive, "8001000000000000000003e800000002")?;
    let end = shutdown().to(0x10_0000);
    assert_bytes(&rt, end, "80050000000000000000000000100000")?;
    // As libsrt sends it: with a word of padding.
    let padded = end.payload(&[0; 4]);
    assert_bytes(&rt, padded, "8005000000000000000000000010000000000000")?;
    let confirmed = ack_ack(1).to(0x10_0000);
    assert_bytes(&rt, confirmed, "80060000000000010000000000100000")?;
    let dropped = drop_request(2, 8, 10).stamp(1_000).to(1);
    assert_bytes(
        &rt,
        dropped,
        "8007000000000002000003e800000001000000080000000a",
    )
}

#[test]
fn acknowledgements(rt: HostRuntime) -> Result<(), Fail> {
    let reported = Acknowledged {
        point: 8,
        rtt: 100_000,
        variance: 50_000,
        available: 1023,
    };
    assert_bytes(
        &rt,
        full_ack(1, reported).stamp(150_000).to(1),
        "8002000000000001000249f00000000100000008000186a00000c350000003ff000000000000000000000000",
    )?;
    let light = light_ack(64).stamp(9_000).to(1);
    assert_bytes(&rt, light, "8002000000000000000023280000000100000040")?;
    assert_bytes(
        &rt,
        ack(3, &[10, 10_000, 0]).stamp(9_000).to(1),
        "800200000000000300002328000000010000000a0000271000000000",
    )
}

#[test]
fn a_loss_list(rt: HostRuntime) -> Result<(), Fail> {
    let losses = [Loss::Single(8), Loss::Range(0x7fff_ffff, 5)];
    assert_bytes(
        &rt,
        nak(&losses).stamp(1_000).to(1),
        "8003000000000000000003e80000000100000008ffffffff00000005",
    )
}

#[test]
fn handshakes_of_a_publisher(rt: HostRuntime) -> Result<(), Fail> {
    let first = Caller {
        id: 0x17f5_756c,
        initial: 0x63cf_b139,
        mtu: 1500,
        window: 8192,
        cookie: 0,
    };
    assert_bytes(
        &rt,
        induction(first).stamp(0xd1),
        "8000000000000000000000d100000000000000040000000263cfb139000005dc000020000000000117f5756c000000000100007f000000000000000000000000",
    )?;
    let second = Caller {
        id: 0x1c2c_57f4,
        initial: 0x63cf_2f33,
        mtu: 1500,
        window: 8192,
        cookie: 0xcafe_babe,
    };
    let blocks = [
        offer(0xbf, 120, 0),
        Block::StreamId("#!::r=studio,m=publish"),
    ];
    assert_bytes(
        &rt,
        conclusion(second, &blocks).stamp(0x1d3),
        "8000000000000000000001d300000000000000050000000563cf2f33000005dc00002000ffffffff1c2c57f4cafebabe0100007f000000000000000000000000\
        0001000300010501000000bf00780000000500063a3a212374733d726f696475703d6d2c696c627500006873",
    )
}

/// The blocks of a caller in buffer mode that requests a stream by its name.
#[test]
fn a_conclusion_in_buffer_mode(rt: HostRuntime) -> Result<(), Fail> {
    let caller = Caller {
        id: 1,
        initial: 5,
        mtu: 1500,
        window: 8192,
        cookie: 0,
    };
    let blocks = [
        offer(0xe4, 0, 0),
        Block::StreamId("studio"),
        Block::Congestion("file"),
    ];
    assert_bytes(
        &rt,
        conclusion(caller, &blocks),
        "80000000000000000000000000000000000000050000000500000005000005dc00002000ffffffff00000001000000000100007f000000000000000000000000\
        0001000300010501000000e400000000000500026475747300006f6900060001656c6966",
    )
}

#[test]
fn handshakes_of_a_listener(rt: HostRuntime) -> Result<(), Fail> {
    let response = Block::Response(Offer {
        version: 0x1_0501,
        flags: 0x3f,
        receiver_ms: 120,
        sender_ms: 200,
    });
    assert_bytes(
        &rt,
        conclusion_answer(5, 1024, 0x10_0000, &[response]).to(1),
        "80000000000000000000000000000001000000050000000100000005000005dc00000400ffffffff00100000000000000000000000000000000000000000000000020003\
        000105010000003f007800c8",
    )?;
    assert_bytes(
        &rt,
        refusal(5, 1002).to(1),
        "80000000000000000000000000000001000000050000000000000005000005dc00002000000003ea000000010000000000000000000000000000000000000000",
    )
}

#[test]
fn a_difference_is_put_in_words(rt: HostRuntime) -> Result<(), Fail> {
    let arrived = nak(&[Loss::Single(8)])
        .stamp(1_000)
        .to(1)
        .bytes(rt.alloc())?;
    let wanted = nak(&[Loss::Single(9)])
        .stamp(1_000)
        .to(1)
        .bytes(rt.alloc())?;
    let outline = Outline {
        kind: Kind::Nak,
        length: 20,
        first: 0x8003_0000,
        second: 0,
        stamp: 1_000,
        destination: 1,
        word: 8,
    };
    assert_eq!(rt;
        first_difference(&arrived, &wanted),
        Some(Difference {
            at: 19,
            field: Field::Contents,
            arrived: outline,
            wanted: Outline { word: 9, ..outline },
        })
    );
    Ok(())
}

/// Where one datagram is a prefix of the other, its differing word is 0.
#[test]
fn a_longer_datagram_differs_at_its_end(rt: HostRuntime) -> Result<(), Fail> {
    let arrived = light_ack(64).to(1).bytes(rt.alloc())?;
    let wanted = ack(0, &[64, 7]).to(1).bytes(rt.alloc())?;
    let Some(reported) = first_difference(&arrived, &wanted) else {
        return Err(Fail::from("they differ"));
    };
    assert_eq!(rt;
        (reported.at, reported.field, reported.arrived.kind),
        (20, Field::Contents, Kind::Ack)
    );
    assert_eq!(rt; (reported.arrived.length, reported.wanted.length), (20, 24));
    assert_eq!(rt; (reported.arrived.word, reported.wanted.word), (0, 7));
    Ok(())
}

/// What follows seed 7, by Python's whole numbers.
#[test]
fn random_numbers_are_those_of_the_generator(rt: HostRuntime) -> Result<(), Fail> {
    let mut dice = Dice::new(7);
    let numbers = [
        dice.below(1000),
        dice.below(1000),
        dice.below(6),
        dice.below(u32::MAX),
        dice.below(0),
        dice.below(1000),
    ];
    assert_eq!(rt; numbers, [278, 231, 3, 585718673, 0, 219]);
    Ok(())
}
