//! The limits of a round, and datagrams of each length and of several peers. The expected outcomes were worked out from
//! the rules by hand.

use super::datagrams::{FILES, SESSION, STUDIO, refusal, stray_shutdown};
use super::{
    ALWAYS, Routes, assert_bytes, comes, conclude, open_routes, peer, pumped, reply_to, reported,
    with_places,
};
use crate::{Report, ScriptDatagram, SourceScript, SourceStep, WireScript};
use srt_samples::{data_packet, keep_alive};
use std::alloc::Global;
use std::process::Abort;
use std::sync::Wait;
use std::test::Fail;

/// Asserts that the next round reads this many datagrams, which are all dropped.
fn assert_drops(
    rt: &(impl AllocGlobal + Wait + Abort),
    routes: &mut Routes,
    source: &mut SourceScript,
    count: u64,
) -> Result<(), Fail> {
    let alloc = rt.alloc();
    let mut wire = WireScript::new(alloc, Vec::new(alloc));
    let report = pumped(rt, [ALWAYS; 2], &mut routes.ends, source, &mut wire, 1)?;
    assert_eq!(rt;
        report,
        Report {
            read: count,
            dropped: count,
            ..Report::NOTHING
        }
    );
    Ok(())
}

#[test]
fn a_round_reads_256_datagrams(rt: HostRuntime) -> Result<(), Fail> {
    let alloc = rt.alloc();
    let mut routes = open_routes(alloc)?;
    let mut steps = Vec::new(alloc);
    for _ in 0..300 {
        steps.push(comes(alloc, stray_shutdown())?)?;
    }
    let mut source = SourceScript::new(steps);
    assert_drops(&rt, &mut routes, &mut source, 256)?;
    assert_drops(&rt, &mut routes, &mut source, 44)
}

/// Asserts that from this place on the wire was handed the replies of the second route to the callers with the IDs 1 to
/// 3: reason 1012, since they lack the flag STREAM.
fn assert_refused(
    rt: &(impl AllocGlobal + Abort),
    wire: &WireScript,
    from: usize,
) -> Result<(), Fail> {
    for (sent, caller) in wire.handed().iter().skip(from).zip([1u32, 2, 3]) {
        assert_bytes(rt, &sent.bytes, refusal(caller, 1012))?;
    }
    Ok(())
}

/// Asserts that from this place on the wire was handed the replies of the first route to the callers with the IDs from
/// `first` to `last`.
fn assert_answered(
    rt: &(impl AllocGlobal + Abort),
    wire: &WireScript,
    from: usize,
    first: u32,
    last: u32,
) -> Result<(), Fail> {
    for (sent, caller) in wire.handed().iter().skip(from).zip(first..=last) {
        assert_bytes(rt, &sent.bytes, reply_to(caller))?;
    }
    Ok(())
}

/// The first route has 70 replies and the second one 3: a round sends 64 of the first route and then all of the second.
#[test]
fn a_round_sends_64_replies_of_a_route_and_then_those_of_the_next(
    rt: HostRuntime,
) -> Result<(), Fail> {
    let alloc = rt.alloc();
    let mut routes = with_places(alloc, [ALWAYS; 2], 128)?;
    conclude(&rt, &mut routes, &[(STUDIO, 70), (FILES, 3)])?;
    let mut wire = WireScript::new(alloc, Vec::new(alloc));
    let _ = reported(&rt, &mut routes, Vec::new(alloc), &mut wire, 1)?;
    assert_eq!(&rt; wire.handed().len(), 67);
    assert_answered(&rt, &wire, 0, 1, 64)?;
    assert_refused(&rt, &wire, 64)?;
    let _ = reported(&rt, &mut routes, Vec::new(alloc), &mut wire, 1)?;
    assert_eq!(&rt; wire.handed().len(), 73);
    assert_answered(&rt, &wire, 67, 65, 70)
}

/// A packet of this many bytes to the first session of the first route, from this port: a data packet if it has more
/// than a header, else a KEEPALIVE.
fn packet_of(alloc: Global, len: usize, port: u16) -> Result<SourceStep, Fail> {
    let header = if len > 16 {
        data_packet(5).flags(0xe000_0001)
    } else {
        keep_alive()
    };
    let mut bytes = header.to(SESSION).bytes(alloc)?;
    for _ in bytes.len()..len {
        bytes.push(7)?;
    }
    Ok(SourceStep::Datagram(ScriptDatagram {
        peer: peer(port),
        bytes,
        moment: 1_000_000,
    }))
}

/// Asserts the report of eight rounds in which the source does these steps, if the inboxes have 2048 places.
fn assert_offered(
    rt: &(impl AllocGlobal + Wait + Abort),
    steps: Vec<SourceStep>,
    wanted: Report,
) -> Result<(), Fail> {
    let alloc = rt.alloc();
    let mut routes = with_places(alloc, [ALWAYS; 2], 2048)?;
    let mut wire = WireScript::new(alloc, Vec::new(alloc));
    let report = reported(rt, &mut routes, steps, &mut wire, 8)?;
    assert_eq!(rt; report, wanted);
    Ok(())
}

/// They fill six rounds. Then a wait fails, and a stray datagram comes in the round after.
#[test]
fn a_packet_of_each_length_is_offered(rt: HostRuntime) -> Result<(), Fail> {
    let alloc = rt.alloc();
    let mut steps = Vec::new(alloc);
    for len in 16..=1472 {
        steps.push(packet_of(alloc, len, 5000)?)?;
    }
    steps.push(SourceStep::WaitFails)?;
    steps.push(comes(alloc, stray_shutdown())?)?;
    let wanted = Report {
        read: 1458,
        accepted: 1457,
        dropped: 1,
        faults: 1,
        ..Report::NOTHING
    };
    assert_offered(&rt, steps, wanted)
}

#[test]
fn a_packet_from_any_port_is_offered(rt: HostRuntime) -> Result<(), Fail> {
    let alloc = rt.alloc();
    let mut steps = Vec::new(alloc);
    for port in [0, 1, 2, 255, 256, 1023, 1024, 65535] {
        steps.push(packet_of(alloc, 16, port)?)?;
    }
    let wanted = Report {
        read: 8,
        accepted: 8,
        ..Report::NOTHING
    };
    assert_offered(&rt, steps, wanted)
}
