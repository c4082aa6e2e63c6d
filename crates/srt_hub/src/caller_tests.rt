//! The gateway with its lobby and its routes, from bytes to bytes. The cookies were computed by Python's hashlib. `rt
//! try --test --fail-alloc N` tests failed allocations: each test then ends with its own error, or passes.

use crate::tests::{assert_floods, assert_sends, assert_sends_nothing, assert_turns, live_entry};
use crate::{Arrived, Cause, Hub, SrtGateway, Ticked};
use srt_cookie::Secret;
use srt_samples::{
    Acknowledged, Block, Caller, HSREQ, HSRSP, Sample, conclusion, conclusion_answer, data_packet,
    full_ack, refusal, shutdown,
};
use srt_types::{Entry, Mode, OpenFault, Peer, Turned};
use std::alloc::Global;
use std::array;
use std::process::Abort;
use std::test::Fail;

/// A call: its port, the time of its conclusion in microseconds, the caller's handshake values, and its cookie of
/// minute 0.
#[derive(Clone, Copy)]
pub(crate) struct Call {
    pub(crate) port: u16,
    pub(crate) micros: u32,
    pub(crate) caller: Caller,
}

pub(crate) const FIRST: Call = Call {
    port: 5000,
    micros: 1_000_000,
    caller: Caller {
        id: 1,
        initial: 5,
        mtu: 1500,
        window: 8192,
        cookie: 0xecc9_58a6,
    },
};

const SECOND: Call = Call {
    port: 5001,
    micros: 1_010_000,
    caller: Caller {
        id: 2,
        initial: 9,
        mtu: 1500,
        window: 8192,
        cookie: 0x6e46_80bd,
    },
};

const THIRD: Call = Call {
    port: 5002,
    micros: 1_020_000,
    caller: Caller {
        id: 3,
        initial: 20,
        mtu: 1500,
        window: 8192,
        cookie: 0x3b93_c3d7,
    },
};

/// The first caller's cookie of minute 3.
const COOKIE_3: u32 = 0xc3ac_78a5;

/// The blocks of a subscriber and of a publisher.
pub(crate) const REQUESTS: [Block<'static>; 2] = [HSREQ, Block::StreamId("studio")];

const PUBLISHES: [Block<'static>; 2] = [HSREQ, Block::StreamId("#!::r=studio,m=publish")];

/// The answer to this call with this session ID, of a route with a window of this many packets.
pub(crate) fn agreed<'a>(call: &Call, window: u32, session: u32) -> Sample<'a> {
    conclusion_answer(call.caller.initial, window, session, &[HSRSP]).to(call.caller.id)
}

/// The answer of 1002 to this call.
pub(crate) fn refused<'a>(call: &Call) -> Sample<'a> {
    refusal(call.caller.initial, 1002).to(call.caller.id)
}

/// The socket ID of the first route's first session, and of the second route's.
pub(crate) const SESSION: u32 = 0x10_0000;

const OTHER_SESSION: u32 = 0x20_0000;

/// A Full ACK of packet 9 to the second caller: its number, its timestamp and the available buffer size.
fn acknowledged<'a>(number: u32, stamp: u32, available: u32) -> Sample<'a> {
    full_ack(
        number,
        Acknowledged {
            point: 10,
            rtt: 100_000,
            variance: 50_000,
            available,
        },
    )
    .stamp(stamp)
    .to(SECOND.caller.id)
}

pub(crate) fn near(port: u16) -> Peer {
    Peer {
        ip: [0, 0, 0, 0, 0, 0, 0, 0, 0, 0, 0xff, 0xff, 127, 0, 0, 1],
        port,
    }
}

fn entry(alloc: Global, name: &str, mode: Mode, buffer: u32) -> Result<Entry, Fail> {
    let mut entry = live_entry(alloc, name)?;
    entry.mode = mode;
    entry.buffer = buffer;
    Ok(entry)
}

/// The bytes 0 to 31.
fn secret() -> Secret {
    Secret::new(array::from_fn(|i| i as u8))
}

/// The routes `studio` and `files`.
pub(crate) fn opened(alloc: Global) -> Result<SrtGateway, Fail> {
    let entries = vec![in alloc;
        entry(alloc, "studio", Mode::Live, 1024)?,
        entry(alloc, "files", Mode::Buffer, 32)?,
    ]?;
    match Hub::open(alloc, secret(), &entries) {
        Ok(gateway) => Ok(gateway),
        Err(_) => Err(Fail::from("a gateway that doesn't open")),
    }
}

/// A datagram: the port that it is sent from, the time in microseconds, and its bytes.
#[derive(Clone, Copy)]
pub(crate) struct Arrival<'a> {
    pub(crate) port: u16,
    pub(crate) micros: u32,
    pub(crate) sample: Sample<'a>,
}

/// Asserts the result of a datagram.
pub(crate) fn assert_arrives(
    rt: &(impl AllocGlobal + Abort),
    gateway: &mut SrtGateway,
    datagram: &Arrival<'_>,
    becomes: Arrived,
) -> Result<(), Fail> {
    let bytes = datagram.sample.bytes(rt.alloc())?;
    let moment = u64::from(datagram.micros);
    assert_eq!(rt;
        gateway.arrive(rt.alloc(), near(datagram.port), &bytes, moment),
        Ok(becomes)
    );
    Ok(())
}

/// Asserts that the first route processes its only item and sends only this.
fn assert_answers(
    rt: &(impl AllocGlobal + Abort),
    gateway: &mut SrtGateway,
    port: u16,
    answer: Sample<'_>,
) -> Result<(), Fail> {
    let wanted = answer.bytes(rt.alloc())?;
    assert_turns(
        rt,
        gateway,
        0,
        &[Turned::Applied, Turned::Moved, Turned::Idle],
    );
    assert_sends(rt, gateway, 0, near(port), &wanted);
    assert_sends_nothing(rt, gateway, 0);
    Ok(())
}

/// Asserts that a caller's conclusion with these blocks is answered with only this.
pub(crate) fn assert_concludes(
    rt: &(impl AllocGlobal + Abort),
    gateway: &mut SrtGateway,
    call: &Call,
    blocks: &[Block<'_>],
    answer: Sample<'_>,
) -> Result<(), Fail> {
    let conclusion = Arrival {
        port: call.port,
        micros: call.micros,
        sample: conclusion(call.caller, blocks),
    };
    assert_arrives(rt, gateway, &conclusion, Arrived::Accepted(0))?;
    assert_answers(rt, gateway, call.port, answer)
}

/// A session opens, its answer is repeated, it is ended, and it opens again in the next generation.
#[test]
fn a_caller_comes_and_comes_again(rt: HostRuntime) -> Result<(), Fail> {
    let mut gateway = opened(rt.alloc())?;
    let shutdown = Arrival {
        port: FIRST.port,
        micros: 1_000_000,
        sample: shutdown().to(SESSION),
    };
    assert_eq!(rt; gateway.routes(), 2);
    for _ in 0..2 {
        assert_concludes(
            &rt,
            &mut gateway,
            &FIRST,
            &REQUESTS,
            agreed(&FIRST, 1024, SESSION),
        )?;
    }
    assert_arrives(&rt, &mut gateway, &shutdown, Arrived::Accepted(0))?;
    assert_turns(&rt, &mut gateway, 0, &[Turned::Applied, Turned::Idle]);
    assert_concludes(
        &rt,
        &mut gateway,
        &FIRST,
        &REQUESTS,
        agreed(&FIRST, 1024, 0x10_0100),
    )
}

/// The first and the second caller publish.
fn two_publish(rt: &(impl AllocGlobal + Abort), gateway: &mut SrtGateway) -> Result<(), Fail> {
    let first = agreed(&FIRST, 1024, SESSION);
    assert_concludes(rt, gateway, &FIRST, &PUBLISHES, first)?;
    let second = agreed(&SECOND, 1024, 0x10_0001);
    assert_concludes(rt, gateway, &SECOND, &PUBLISHES, second)
}

/// A second publisher is the standby, and a third one is refused.
#[test]
fn a_third_publisher_is_refused(rt: HostRuntime) -> Result<(), Fail> {
    let mut gateway = opened(rt.alloc())?;
    two_publish(&rt, &mut gateway)?;
    assert_concludes(&rt, &mut gateway, &THIRD, &PUBLISHES, refused(&THIRD))
}

/// The first and the second caller publish and the third subscribes; the second, which is the standby, sends a packet
/// that is due at 1131000.
fn stands_by(rt: &(impl AllocGlobal + Abort), gateway: &mut SrtGateway) -> Result<(), Fail> {
    two_publish(rt, gateway)?;
    let third = agreed(&THIRD, 1024, 0x10_0002);
    assert_concludes(rt, gateway, &THIRD, &REQUESTS, third)?;
    let data = Arrival {
        port: SECOND.port,
        micros: 1_021_000,
        sample: data_packet(9).stamp(1_000).to(0x10_0001).payload(b"hi"),
    };
    assert_arrives(rt, gateway, &data, Arrived::Accepted(0))?;
    let ack = acknowledged(1, 11_000, 1023);
    assert_answers(rt, gateway, SECOND.port, ack)
}

/// The first caller ends its session at this time in microseconds.
fn shuts_down(
    rt: &(impl AllocGlobal + Abort),
    gateway: &mut SrtGateway,
    micros: u32,
) -> Result<(), Fail> {
    let shutdown = Arrival {
        port: FIRST.port,
        micros,
        sample: shutdown().to(SESSION),
    };
    assert_arrives(rt, gateway, &shutdown, Arrived::Accepted(0))
}

/// The first route is ticked at this time in microseconds.
fn ticks(rt: &impl Abort, gateway: &mut SrtGateway, micros: u32) {
    assert!(rt; gateway.routes() > 0);
    assert_eq!(rt; gateway.tick(0, u64::from(micros)), Ticked::Accepted);
}

/// If the active publisher ends before the packet is due, the subscriber gets it at its time.
#[test]
fn a_standby_takes_over(rt: HostRuntime) -> Result<(), Fail> {
    let mut gateway = opened(rt.alloc())?;
    stands_by(&rt, &mut gateway)?;
    shuts_down(&rt, &mut gateway, 1_130_500)?;
    let ack = acknowledged(2, 120_500, 1023);
    assert_answers(&rt, &mut gateway, SECOND.port, ack)?;
    ticks(&rt, &mut gateway, 1_131_000);
    let data = data_packet(20)
        .flags(0xe000_0001)
        .stamp(111_000)
        .to(THIRD.caller.id)
        .payload(b"hi");
    assert_answers(&rt, &mut gateway, THIRD.port, data)
}

/// If the active publisher ends after the packet was due, nobody gets it.
#[test]
fn a_standby_delivers_to_nobody(rt: HostRuntime) -> Result<(), Fail> {
    let mut gateway = opened(rt.alloc())?;
    stands_by(&rt, &mut gateway)?;
    ticks(&rt, &mut gateway, 1_131_000);
    let ack = acknowledged(2, 121_000, 1024);
    assert_answers(&rt, &mut gateway, SECOND.port, ack)?;
    shuts_down(&rt, &mut gateway, 1_141_000)?;
    let again = acknowledged(3, 131_000, 1024);
    assert_answers(&rt, &mut gateway, SECOND.port, again)
}

/// A flood of the second route between two events of the first changes nothing of the first.
#[test]
fn a_flood_changes_no_other_route(rt: HostRuntime) -> Result<(), Fail> {
    let mut gateway = opened(rt.alloc())?;
    let conclusion = Arrival {
        port: FIRST.port,
        micros: 1_000_000,
        sample: conclusion(FIRST.caller, &REQUESTS),
    };
    assert_arrives(&rt, &mut gateway, &conclusion, Arrived::Accepted(0))?;
    let data = data_packet(0).to(OTHER_SESSION).payload(&[0]);
    let flood = data.bytes(rt.alloc())?;
    assert_floods(&rt, &mut gateway, near(SECOND.port), 1, &flood)?;
    assert_answers(&rt, &mut gateway, FIRST.port, agreed(&FIRST, 1024, SESSION))
}

/// Asserts the result of a conclusion with the cookie of minute 3, from this port at this time in microseconds.
fn assert_cookie_3(
    rt: &(impl AllocGlobal + Abort),
    gateway: &mut SrtGateway,
    port: u16,
    micros: u32,
    becomes: Arrived,
) -> Result<(), Fail> {
    let caller = Caller {
        cookie: COOKIE_3,
        ..FIRST.caller
    };
    let conclusion = Arrival {
        port,
        micros,
        sample: conclusion(caller, &REQUESTS),
    };
    assert_arrives(rt, gateway, &conclusion, becomes)
}

/// A cookie is valid in its minute and in the next, from the port that it was made for.
#[test]
fn a_cookie_ends(rt: HostRuntime) -> Result<(), Fail> {
    let mut gateway = opened(rt.alloc())?;
    assert_cookie_3(&rt, &mut gateway, 5000, 240_000_000, Arrived::Accepted(0))?;
    assert_cookie_3(
        &rt,
        &mut gateway,
        5000,
        300_000_000,
        Arrived::Dropped(Cause::WrongCookie),
    )?;
    assert_cookie_3(
        &rt,
        &mut gateway,
        5001,
        240_000_000,
        Arrived::Dropped(Cause::WrongCookie),
    )
}

/// Entries with a fault open no gateway.
#[test]
fn wrong_entries_open_nothing(rt: HostRuntime) -> Result<(), Fail> {
    let alloc = rt.alloc();
    let twice = vec![in alloc;
        entry(alloc, "studio", Mode::Live, 1024)?,
        entry(alloc, "studio", Mode::Live, 16)?,
    ]?;
    let few = vec![in alloc; entry(alloc, "studio", Mode::Live, 16)?]?;
    let fault = |opened: Result<SrtGateway, OpenFault>| opened.err();
    assert_eq!(rt;
        fault(Hub::open(alloc, secret(), &twice)),
        Some(OpenFault::Names)
    );
    assert_eq!(rt;
        fault(Hub::open(alloc, secret(), &few)),
        Some(OpenFault::Limits)
    );
    Ok(())
}

/// KEEPALIVEs of each length that a datagram can have; the bytes after the header aren't read.
#[test]
fn every_length_arrives(rt: HostRuntime) -> Result<(), Fail> {
    let mut gateway = opened(rt.alloc())?;
    let mut bytes = [0u8; 1472];
    bytes[0] = 0x80;
    bytes[1] = 1;
    bytes[13] = 0x10;
    for len in 16..1473 {
        assert_eq!(rt;
            gateway.arrive(rt.alloc(), near(5000), &bytes[..len], 1_000_000),
            Ok(Arrived::Accepted(0))
        );
        assert_turns(&rt, &mut gateway, 0, &[Turned::Applied]);
    }
    Ok(())
}
