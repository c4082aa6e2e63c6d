//! Objects as a program reads them.

use crate::{Caller, ChangeSummary, ClockDrift, ConfigEvent, EndReason, LogEvent, put_object};
use srt_route::Traffic;
use srt_types::{KeyLength, NotAdmitted, Peer, Role};
use std::process::Abort;
use std::test::Fail;

/// A publisher of `studio` at 192.0.2.7.
fn encoder() -> Caller<'static> {
    Caller {
        route: b"studio",
        role: Role::Publish,
        peer: Peer {
            ip: [0, 0, 0, 0, 0, 0, 0, 0, 0, 0, 0xff, 0xff, 192, 0, 2, 7],
            port: 50123,
        },
        id: 0x0010_0001,
    }
}

/// Asserts that an event has this object, behind what is there.
fn assert_object<R: Abort + AllocGlobal>(
    rt: &R,
    time: Option<[u8; 24]>,
    event: LogEvent<'_>,
    object: &str,
) -> Result<(), Fail> {
    let mut out = Vec::new(rt.alloc());
    put_object(&mut out, time, event)?;
    assert_eq!(rt; out.as_slice(), object.as_bytes());
    Ok(())
}

#[test]
fn object_of_an_opening(rt: HostRuntime) -> Result<(), Fail> {
    assert_object(
        &rt,
        Some(*b"2026-11-26T15:04:05.123Z"),
        LogEvent::Opened {
            caller: encoder(),
            standby: false,
            latency_ms: Some(120),
            key_length: None,
        },
        "{\"event\":\"opened\",\"time\":\"2026-11-26T15:04:05.123Z\",\"text\":\"studio: publisher 192.0.2.7:50123 opened, socket 0x00100001, latency 120 ms\",\"route\":\"studio\",\"role\":\"publisher\",\"peer\":\"192.0.2.7:50123\",\"socket\":\"0x00100001\",\"standby\":false,\"latency_ms\":120}\n",
    )
}

#[test]
fn object_of_an_encrypted_opening(rt: HostRuntime) -> Result<(), Fail> {
    assert_object(
        &rt,
        None,
        LogEvent::Opened {
            caller: encoder(),
            standby: true,
            latency_ms: None,
            key_length: Some(KeyLength::Aes192),
        },
        "{\"event\":\"opened\",\"text\":\"studio: publisher 192.0.2.7:50123 opened as standby, socket 0x00100001, encrypted with AES-192\",\"route\":\"studio\",\"role\":\"publisher\",\"peer\":\"192.0.2.7:50123\",\"socket\":\"0x00100001\",\"standby\":true,\"key_length_bytes\":24}\n",
    )
}

#[test]
fn object_of_an_end(rt: HostRuntime) -> Result<(), Fail> {
    assert_object(
        &rt,
        None,
        LogEvent::Ended {
            caller: encoder(),
            reason: EndReason::Silence,
            lasted_ms: 3_600_123,
            traffic: Traffic::Received(srt_pub::Statistics {
                counts: srt_pub::Counts {
                    arrived: 1002,
                    late: 1,
                    ahead: 0,
                    received: 1000,
                    bytes: 1_316_000,
                    delivered: 990,
                    given_up: 3,
                    naks: 4,
                    reported_lost: 5,
                    full_window_acks: 0,
                },
                in_use: 10,
                available: 22,
                rtt: 100_000,
                variance: 50_000,
                correction: Some(-29_999),
            }),
            clock: Some(ClockDrift {
                ppm: -499,
                correction: -29_999,
            }),
        },
        "{\"event\":\"ended\",\"text\":\"studio: publisher 192.0.2.7:50123 ended, socket 0x00100001, nothing arrived from its peer, after 3600123 ms, 1000 packets, 1316000 bytes, 3 lost, 2 resent, clock drift -499 ppm, correction -29999 us\",\"route\":\"studio\",\"role\":\"publisher\",\"peer\":\"192.0.2.7:50123\",\"socket\":\"0x00100001\",\"reason\":\"silence\",\"lasted_ms\":3600123,\"packets\":1000,\"bytes\":1316000,\"lost\":3,\"resent\":2,\"clock_drift_ppm\":-499,\"clock_correction_us\":-29999}\n",
    )
}

#[test]
fn object_of_a_refusal(rt: HostRuntime) -> Result<(), Fail> {
    assert_object(
        &rt,
        None,
        LogEvent::Refused {
            code: 1002,
            peer: encoder().peer,
            name: b"a\"\n\\\xfc",
            by: Some(NotAdmitted::Key(Role::Publish)),
        },
        "{\"event\":\"refused\",\"text\":\"192.0.2.7:50123 refused, 1002 PEER, asked for \\\"a\\\\x22\\\\x0a\\\\x5c\\\\xfc\\\", publish_key missing or wrong\",\"code\":1002,\"peer\":\"192.0.2.7:50123\",\"name\":\"a\\\\x22\\\\x0a\\\\x5c\\\\xfc\",\"cause\":\"publish_key\"}\n",
    )
}

#[test]
fn objects_about_a_changed_configuration(rt: HostRuntime) -> Result<(), Fail> {
    assert_object(
        &rt,
        None,
        LogEvent::Config {
            event: ConfigEvent::Taken {
                routes: ChangeSummary {
                    staying: 3,
                    opening: 1,
                    closing: 0,
                    changing: 2,
                },
            },
        },
        "{\"event\":\"config_taken\",\"text\":\"configuration changed: 3 routes stay, 1 open, 0 close, 2 change\",\"staying\":3,\"opening\":1,\"closing\":0,\"changing\":2}\n",
    )?;
    assert_object(
        &rt,
        None,
        LogEvent::Config {
            event: ConfigEvent::Wrong {
                why: b"route 2: mode = \"lively\"",
            },
        },
        "{\"event\":\"config_wrong\",\"text\":\"configuration not taken: route 2: mode = \\\"lively\\\"\",\"why\":\"route 2: mode = \\\"lively\\\"\"}\n",
    )?;
    assert_object(
        &rt,
        None,
        LogEvent::Stopped,
        "{\"event\":\"stopped\",\"text\":\"stopped\"}\n",
    )
}
