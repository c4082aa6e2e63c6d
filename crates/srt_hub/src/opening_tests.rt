//! Routes that are opened and closed while the gateway runs. The cookies were computed by Python's hashlib.

use crate::caller_tests::{
    Arrival, FIRST, REQUESTS, SESSION, agreed, assert_arrives, assert_concludes, near, opened,
    refused,
};
use crate::tests::{assert_sends, assert_sends_nothing, assert_turns, live_entry};
use crate::{Arrived, Cause, Closing, Hub, SrtGateway, Ticked};
use srt_cookie::Secret;
use srt_samples::{conclusion, first_difference, keep_alive, shutdown};
use srt_types::{Entry, OpenFault, Turned};
use std::alloc::Global;
use std::process::Abort;
use std::test::Fail;

fn small(alloc: Global, name: &str, latency_ms: u32) -> Result<Entry, Fail> {
    let mut entry = live_entry(alloc, name)?;
    entry.latency_ms = latency_ms;
    entry.buffer = 32;
    entry.sessions = 2;
    Ok(entry)
}

/// Asserts the result of opening one more route.
fn assert_opens(
    rt: &(impl AllocGlobal + Abort),
    gateway: &mut SrtGateway,
    name: &str,
    latency_ms: u32,
    becomes: Result<usize, OpenFault>,
) -> Result<(), Fail> {
    let one = small(rt.alloc(), name, latency_ms)?;
    assert_eq!(rt; gateway.open_route(rt.alloc(), &one), becomes, "{name}");
    Ok(())
}

/// Asserts the result of closing the first route at this time in microseconds.
fn assert_closes(rt: &impl Abort, gateway: &mut SrtGateway, micros: u32, becomes: Closing) {
    assert!(rt; gateway.routes() > 0);
    assert_eq!(rt; gateway.close_route(0, u64::from(micros)), becomes);
}

/// The first caller's conclusion at this time in microseconds.
fn asks(micros: u32) -> Arrival<'static> {
    Arrival {
        port: FIRST.port,
        micros,
        sample: conclusion(FIRST.caller, &REQUESTS),
    }
}

/// Asserts that the first caller is refused with 1002.
fn assert_refused(
    rt: &(impl AllocGlobal + Abort),
    gateway: &mut SrtGateway,
    micros: u32,
) -> Result<(), Fail> {
    let conclusion = asks(micros).sample.bytes(rt.alloc())?;
    let wanted = refused(&FIRST).bytes(rt.alloc())?;
    match gateway.arrive(rt.alloc(), near(FIRST.port), &conclusion, u64::from(micros)) {
        Ok(Arrived::Answer(bytes)) => {
            assert_eq!(rt; first_difference(&bytes[..], &wanted), None);
            Ok(())
        }
        _ => Err(Fail::from("no answer")),
    }
}

/// The first caller's session is ended by the closing of its route.
fn is_ended(rt: &(impl AllocGlobal + Abort), gateway: &mut SrtGateway) -> Result<(), Fail> {
    let answer = agreed(&FIRST, 1024, SESSION);
    assert_concludes(rt, gateway, &FIRST, &REQUESTS, answer)?;
    assert_closes(rt, gateway, 1_500_000, Closing::Accepted);
    assert_turns(rt, gateway, 0, &[Turned::Applied, Turned::Moved]);
    // Half a second after the session opened.
    let end = shutdown().stamp(500_000).to(FIRST.caller.id);
    let wanted = end.bytes(rt.alloc())?;
    assert_sends(rt, gateway, 0, near(FIRST.port), &wanted);
    Ok(())
}

/// A closed route sends SHUTDOWN to its session and receives no datagrams. Its name may be used again, its index isn't.
#[test]
fn a_route_is_closed_and_its_name_opened_again(rt: HostRuntime) -> Result<(), Fail> {
    let mut gateway = opened(rt.alloc())?;
    is_ended(&rt, &mut gateway)?;
    let late = Arrival {
        port: FIRST.port,
        micros: 1_510_000,
        sample: keep_alive().to(SESSION),
    };
    assert_arrives(&rt, &mut gateway, &late, Arrived::Dropped(Cause::UnknownId))?;
    assert_refused(&rt, &mut gateway, 1_520_000)?;
    assert_closes(&rt, &mut gateway, 1_600_000, Closing::Closed);
    assert_opens(&rt, &mut gateway, "files", 120, Err(OpenFault::Names))?;
    assert_opens(&rt, &mut gateway, "x", 10, Err(OpenFault::Limits))?;
    assert_opens(&rt, &mut gateway, "studio", 120, Ok(2))?;
    assert_eq!(rt; gateway.routes(), 3);
    assert_arrives(&rt, &mut gateway, &asks(1_700_000), Arrived::Accepted(2))?;
    assert_turns(&rt, &mut gateway, 2, &[Turned::Applied, Turned::Moved]);
    let wanted = agreed(&FIRST, 32, 0x30_0000).bytes(rt.alloc())?;
    assert_sends(&rt, &mut gateway, 2, near(FIRST.port), &wanted);
    Ok(())
}

/// The clock of a closed route advances, and its turns and sends continue.
#[test]
fn a_closed_route_goes_on(rt: HostRuntime) -> Result<(), Fail> {
    let mut gateway = opened(rt.alloc())?;
    is_ended(&rt, &mut gateway)?;
    assert!(rt; gateway.routes() > 0);
    assert_eq!(rt; gateway.tick(0, 2_000_000), Ticked::Accepted);
    assert_turns(&rt, &mut gateway, 0, &[Turned::Applied, Turned::Idle]);
    assert_sends_nothing(&rt, &mut gateway, 0);
    Ok(())
}

/// There are 511 indexes, including those of closed routes.
#[test]
fn there_is_no_512th_index(rt: HostRuntime) -> Result<(), Fail> {
    let alloc = rt.alloc();
    let mut all = Vec::new(alloc);
    for i in 0..510u32 {
        let name = format!(in alloc; "route-{i}")?;
        all.push(small(alloc, name.as_str(), 120)?)?;
    }
    let Ok(mut gateway) = Hub::open(alloc, Secret::new([7; 32]), &all) else {
        return Err(Fail::from("a gateway that doesn't open"));
    };
    assert_opens(&rt, &mut gateway, "route-0", 120, Err(OpenFault::Names))?;
    assert_closes(&rt, &mut gateway, 1, Closing::Accepted);
    assert_opens(&rt, &mut gateway, "route-0", 120, Ok(510))?;
    assert_opens(&rt, &mut gateway, "one-more", 120, Err(OpenFault::Limits))
}
