//! Lines as a person reads them, the limit over moments, and what comes between looks.

use crate::{
    Caller, Change, ChangeSummary, CloseCause, ConfigEvent, EndReason, LineKind, LineShares,
    LogEvent, RouteSnapshot, STEPS, SlotSession, StopCause, Trouble, change_at, event_of, slot_of,
    write_line,
};
use srt_config::FixedKeys;
use srt_route::{EndCause, EndedSession, SessionView, Traffic};
use srt_types::product_limits::MAX_SESSIONS;
use srt_types::{KeyLength, NotAdmitted, Peer, Role};
use std::process::Abort;
use std::test::Fail;

/// The text of a time.
const TIME: [u8; 24] = *b"2026-11-26T15:04:05.123Z";

/// 192.0.2.7
fn near(port: u16) -> Peer {
    Peer {
        ip: [0, 0, 0, 0, 0, 0, 0, 0, 0, 0, 0xff, 0xff, 192, 0, 2, 7],
        port,
    }
}

/// 2001:db8::1
fn far(port: u16) -> Peer {
    Peer {
        ip: [0x20, 0x01, 0x0d, 0xb8, 0, 0, 0, 0, 0, 0, 0, 0, 0, 0, 0, 1],
        port,
    }
}

/// A publisher of `studio` at 192.0.2.7.
fn encoder() -> Caller<'static> {
    Caller {
        route: b"studio",
        role: Role::Publish,
        peer: near(50123),
        id: 0x0010_0001,
    }
}

/// Asserts that an event has this line.
fn assert_line<R: Abort + AllocGlobal>(
    rt: &R,
    time: Option<[u8; 24]>,
    event: LogEvent<'_>,
    line: &str,
) -> Result<(), Fail> {
    let mut out = Vec::new(rt.alloc());
    write_line(&mut out, time, event)?;
    assert_eq!(rt; out.as_slice(), line.as_bytes());
    Ok(())
}

#[test]
fn lines_of_openings(rt: HostRuntime) -> Result<(), Fail> {
    assert_line(
        &rt,
        Some(TIME),
        LogEvent::Opened {
            caller: encoder(),
            standby: false,
            latency_ms: Some(120),
            key_length: None,
        },
        "2026-11-26T15:04:05.123Z studio: publisher 192.0.2.7:50123 opened, socket 0x00100001, latency 120 ms\n",
    )?;
    assert_line(
        &rt,
        None,
        LogEvent::Opened {
            caller: encoder(),
            standby: true,
            latency_ms: None,
            key_length: None,
        },
        "studio: publisher 192.0.2.7:50123 opened as standby, socket 0x00100001\n",
    )
}

#[test]
fn lines_of_encrypted_openings(rt: HostRuntime) -> Result<(), Fail> {
    let lengths = [
        (
            KeyLength::Aes128,
            "studio: publisher 192.0.2.7:50123 opened, socket 0x00100001, latency 120 ms, encrypted with AES-128\n",
        ),
        (
            KeyLength::Aes192,
            "studio: publisher 192.0.2.7:50123 opened, socket 0x00100001, latency 120 ms, encrypted with AES-192\n",
        ),
        (
            KeyLength::Aes256,
            "studio: publisher 192.0.2.7:50123 opened, socket 0x00100001, latency 120 ms, encrypted with AES-256\n",
        ),
    ];
    for (length, line) in lengths {
        assert_line(
            &rt,
            None,
            LogEvent::Opened {
                caller: encoder(),
                standby: false,
                latency_ms: Some(120),
                key_length: Some(length),
            },
            line,
        )?;
    }
    Ok(())
}

#[test]
fn lines_of_ends_and_take_overs(rt: HostRuntime) -> Result<(), Fail> {
    let player = Caller {
        route: b"studio",
        role: Role::Request,
        peer: far(9),
        id: 0xfedc_ba98,
    };
    let counts = srt_sub::Counts {
        queued: 1003,
        bytes: 1_316_000,
        naks: 1,
        given_up: 3,
        misdirected: 0,
    };
    let sendings = srt_sub::Sendings {
        fresh: 1000,
        resent: 2,
    };
    assert_line(
        &rt,
        None,
        LogEvent::Ended {
            caller: player,
            reason: EndReason::Silence,
            lasted_ms: 3_600_123,
            traffic: sent_of(counts, sendings),
            clock: None,
        },
        "studio: subscriber [2001:db8::1]:9 ended, socket 0xfedcba98, nothing arrived from its peer, after 3600123 ms, 1000 packets, 1316000 bytes, 3 lost, 2 resent\n",
    )?;
    assert_line(
        &rt,
        None,
        LogEvent::TookOver { caller: encoder() },
        "studio: publisher 192.0.2.7:50123 took over, socket 0x00100001\n",
    )
}

/// Asserts that a session that ended for this reason has this in its line.
fn assert_reason<R: Abort + AllocGlobal>(
    rt: &R,
    reason: EndReason,
    line: &str,
) -> Result<(), Fail> {
    assert_line(
        rt,
        None,
        LogEvent::Ended {
            caller: encoder(),
            reason,
            lasted_ms: 0,
            traffic: received(0, 0),
            clock: None,
        },
        line,
    )
}

#[test]
fn lines_of_some_reasons(rt: HostRuntime) -> Result<(), Fail> {
    assert_reason(
        &rt,
        EndReason::Shutdown,
        "studio: publisher 192.0.2.7:50123 ended, socket 0x00100001, its peer sent a SHUTDOWN, after 0 ms, 0 packets, 0 bytes, 0 lost, 0 resent\n",
    )?;
    assert_reason(
        &rt,
        EndReason::DrainedTooLong,
        "studio: publisher 192.0.2.7:50123 ended, socket 0x00100001, its peer sent a SHUTDOWN, and not all of it could be delivered, after 0 ms, 0 packets, 0 bytes, 0 lost, 0 resent\n",
    )?;
    assert_reason(
        &rt,
        EndReason::Unknown,
        "studio: publisher 192.0.2.7:50123 ended, socket 0x00100001, its slot was taken again, after 0 ms, 0 packets, 0 bytes, 0 lost, 0 resent\n",
    )
}

#[test]
fn bytes_that_callers_chose_are_escaped(rt: HostRuntime) -> Result<(), Fail> {
    assert_line(
        &rt,
        None,
        LogEvent::Refused {
            code: 1002,
            peer: near(40000),
            name: b"a \"b\\\n\x00\x1b[31m\x7f\xc3\xa9",
            by: None,
        },
        "192.0.2.7:40000 refused, 1002 PEER, asked for \"a \\x22b\\x5c\\x0a\\x00\\x1b[31m\\x7f\\xc3\\xa9\"\n",
    )?;
    assert_line(
        &rt,
        None,
        LogEvent::Refused {
            code: 1016,
            peer: near(0),
            name: b"",
            by: None,
        },
        "192.0.2.7:0 refused, 1016 UNKNOWN\n",
    )
}

/// Asserts what stands at the end of the line of a caller that was refused with 1002.
fn assert_refused_by<R: Abort + AllocGlobal>(
    rt: &R,
    by: NotAdmitted,
    line: &str,
) -> Result<(), Fail> {
    assert_line(
        rt,
        None,
        LogEvent::Refused {
            code: 1002,
            peer: near(7),
            name: b"studio",
            by: Some(by),
        },
        line,
    )
}

#[test]
fn a_refusal_names_the_list_or_key(rt: HostRuntime) -> Result<(), Fail> {
    assert_refused_by(
        &rt,
        NotAdmitted::UnknownName,
        "192.0.2.7:7 refused, 1002 PEER, asked for \"studio\", unknown name\n",
    )?;
    assert_refused_by(
        &rt,
        NotAdmitted::NoName,
        "192.0.2.7:7 refused, 1002 PEER, asked for \"studio\", no valid name\n",
    )?;
    assert_refused_by(
        &rt,
        NotAdmitted::Address(Role::Publish),
        "192.0.2.7:7 refused, 1002 PEER, asked for \"studio\", not in publish_from\n",
    )?;
    assert_refused_by(
        &rt,
        NotAdmitted::Address(Role::Request),
        "192.0.2.7:7 refused, 1002 PEER, asked for \"studio\", not in request_from\n",
    )?;
    assert_refused_by(
        &rt,
        NotAdmitted::Key(Role::Publish),
        "192.0.2.7:7 refused, 1002 PEER, asked for \"studio\", publish_key missing or wrong\n",
    )?;
    assert_refused_by(
        &rt,
        NotAdmitted::Key(Role::Request),
        "192.0.2.7:7 refused, 1002 PEER, asked for \"studio\", request_key missing or wrong\n",
    )
}

#[test]
fn the_limits_of_a_route_are_distinguished(rt: HostRuntime) -> Result<(), Fail> {
    assert_line(
        &rt,
        None,
        LogEvent::Limited {
            route: b"studio",
            full: 1,
            reserved: 20,
            per_address: 300,
        },
        "studio: refused by its limits, 1003 RESOURCE: 1 no free session, 20 reserved, 300 sessions_per_address\n",
    )
}

#[test]
fn lines_of_a_start_and_a_stop(rt: HostRuntime) -> Result<(), Fail> {
    assert_line(
        &rt,
        None,
        LogEvent::Started {
            ip: [0, 0, 0, 0, 0, 0, 0, 0, 0, 0, 0xff, 0xff, 192, 0, 2, 1],
            port: 9000,
            routes: 3,
            workers: 4,
            memory: 73_240_576,
        },
        "serving at 192.0.2.1:9000, routes 3, workers 4, memory 71524 KiB\n",
    )?;
    assert_line(
        &rt,
        None,
        LogEvent::StopRequested {
            by: StopCause::Signal,
        },
        "stopping, by a signal\n",
    )?;
    assert_line(&rt, None, LogEvent::Stopped, "stopped\n")
}

/// A thousand refused callers in a second leave room for all lines about sessions.
#[test]
fn refusals_cost_no_line_about_a_session(rt: HostRuntime) -> Result<(), Fail> {
    let mut shares = LineShares::new();
    let mut refusals = 0_u64;
    for _ in 0..1000 {
        if shares.line(LineKind::Refusal, 7_000_000).written {
            refusals = refusals.saturating_add(1);
        }
    }
    assert_eq!(rt; refusals, 10);
    let mut sessions = 0_u64;
    for _ in 0..41 {
        if shares.line(LineKind::Session, 7_999_999).written {
            sessions = sessions.saturating_add(1);
        }
    }
    assert_eq!(rt; sessions, 40);
    assert_eq!(rt; shares.left_out(), 991);
    let mut polled = shares;
    assert_eq!(rt; polled.poll(7_999_999), 0);
    assert_eq!(rt; polled.poll(8_000_000), 991);
    assert_eq!(rt; polled.poll(8_000_000), 0);
    assert_eq!(rt; polled.left_out(), 0);
    assert_eq!(rt; shares.line(LineKind::Refusal, 8_000_000).left_out, 990);
    assert_eq!(rt; shares.line(LineKind::Refusal, 8_000_000).left_out, 0);
    assert_eq!(rt; shares.line(LineKind::Session, 8_000_000).left_out, 1);
    Ok(())
}

/// Asserts that the first line has an address so.
fn assert_address<R: Abort + AllocGlobal>(rt: &R, ip: [u8; 16], line: &str) -> Result<(), Fail> {
    assert_line(
        rt,
        None,
        LogEvent::Started {
            ip,
            port: 9000,
            routes: 1,
            workers: 1,
            memory: 1024,
        },
        line,
    )
}

/// The forms of RFC 5952: its examples, and others.
#[test]
fn addresses_are_as_short_as_they_can_be(rt: HostRuntime) -> Result<(), Fail> {
    assert_address(
        &rt,
        [0x20, 1, 0xd, 0xb8, 0, 0, 0, 1, 0, 1, 0, 1, 0, 1, 0, 1],
        "serving at [2001:db8:0:1:1:1:1:1]:9000, routes 1, workers 1, memory 1 KiB\n",
    )?;
    assert_address(
        &rt,
        [0x20, 1, 0xd, 0xb8, 0, 0, 0, 0, 0, 1, 0, 0, 0, 0, 0, 1],
        "serving at [2001:db8::1:0:0:1]:9000, routes 1, workers 1, memory 1 KiB\n",
    )?;
    assert_address(
        &rt,
        [0x20, 1, 0, 0, 0, 0, 0, 1, 0, 0, 0, 0, 0, 0, 0, 1],
        "serving at [2001:0:0:1::1]:9000, routes 1, workers 1, memory 1 KiB\n",
    )?;
    assert_address(
        &rt,
        [0; 16],
        "serving at [::]:9000, routes 1, workers 1, memory 1 KiB\n",
    )?;
    assert_address(
        &rt,
        [0xfe, 0x80, 0, 0, 0, 0, 0, 0, 0, 0, 0, 0, 0, 0, 0, 0],
        "serving at [fe80::]:9000, routes 1, workers 1, memory 1 KiB\n",
    )?;
    assert_address(
        &rt,
        [
            0xab, 0xcd, 0xef, 1, 0x23, 0x45, 0x67, 0x89, 0xab, 0xcd, 0xef, 1, 0x23, 0x45, 0x67,
            0x89,
        ],
        "serving at [abcd:ef01:2345:6789:abcd:ef01:2345:6789]:9000, routes 1, workers 1, memory 1 KiB\n",
    )
}

#[test]
fn lines_of_counts_and_warnings(rt: HostRuntime) -> Result<(), Fail> {
    assert_line(
        &rt,
        None,
        LogEvent::KernelDrops { count: 208 },
        "datagrams dropped by the kernel 208\n",
    )?;
    assert_line(
        &rt,
        None,
        LogEvent::SocketFaults { count: 1 },
        "socket faults 1\n",
    )?;
    assert_line(
        &rt,
        None,
        LogEvent::LeftOut { count: u64::MAX },
        "lines left out 18446744073709551615\n",
    )
}

#[test]
fn lines_of_what_came_and_went(rt: HostRuntime) -> Result<(), Fail> {
    assert_line(
        &rt,
        None,
        LogEvent::Unseen {
            route: b"studio",
            opened: 3,
        },
        "studio: 3 sessions opened and ended unseen\n",
    )?;
    assert_line(
        &rt,
        None,
        LogEvent::Unblocked,
        "SIGINT or SIGTERM ends the gateway at once, without a report: bin/srtgw run blocks them\n",
    )?;
    assert_line(
        &rt,
        None,
        LogEvent::Warned {
            warning: b"warning: route 1 (studio): sessions = 1",
        },
        "warning: route 1 (studio): sessions = 1\n",
    )
}

/// Asserts that an event of a changed configuration has this line.
fn assert_config_line<R: Abort + AllocGlobal>(
    rt: &R,
    event: ConfigEvent<'_>,
    line: &str,
) -> Result<(), Fail> {
    assert_line(rt, None, LogEvent::Config { event }, line)
}

#[test]
fn lines_of_a_change_that_is_taken(rt: HostRuntime) -> Result<(), Fail> {
    let routes = ChangeSummary {
        staying: 14,
        opening: 2,
        closing: 1,
        changing: 3,
    };
    assert_line(
        &rt,
        Some(TIME),
        LogEvent::Config {
            event: ConfigEvent::Taken { routes },
        },
        "2026-11-26T15:04:05.123Z configuration changed: 14 routes stay, 2 open, 1 close, 3 change\n",
    )?;
    let route = b"studio";
    let cause = CloseCause::Removed;
    assert_config_line(
        &rt,
        ConfigEvent::RouteCloses { route, cause },
        "studio: closed, it is no longer in the configuration\n",
    )?;
    let cause = CloseCause::OtherKeys;
    assert_config_line(
        &rt,
        ConfigEvent::RouteCloses { route, cause },
        "studio: closed, to open again with other keys\n",
    )?;
    assert_config_line(
        &rt,
        ConfigEvent::RouteOpens {
            route,
            index: 17,
            megabytes: 11,
        },
        "studio: opened with index 17, 11 MB\n",
    )
}

/// Asserts that a change of these keys has this line.
fn assert_differing<R: Abort + AllocGlobal>(
    rt: &R,
    differing: [bool; 4],
    line: &str,
) -> Result<(), Fail> {
    let [bind, workers, status, secret] = differing;
    let keys = FixedKeys {
        bind,
        workers,
        status,
        secret,
    };
    assert_config_line(rt, ConfigEvent::KeysDiffer { keys }, line)
}

#[test]
fn lines_of_keys_that_cannot_change(rt: HostRuntime) -> Result<(), Fail> {
    assert_differing(
        &rt,
        [true, true, true, true],
        "configuration not taken: bind can't change while the gateway runs (also: workers, status, secret); restart it to change it\n",
    )?;
    assert_differing(
        &rt,
        [true, false, false, false],
        "configuration not taken: bind can't change while the gateway runs; restart it to change it\n",
    )?;
    assert_differing(
        &rt,
        [false, true, false, true],
        "configuration not taken: workers can't change while the gateway runs (also: secret); restart it to change it\n",
    )?;
    assert_differing(
        &rt,
        [true, false, true, true],
        "configuration not taken: bind can't change while the gateway runs (also: status, secret); restart it to change it\n",
    )?;
    assert_differing(
        &rt,
        [false, false, false, true],
        "configuration not taken: secret can't change while the gateway runs; restart it to change it\n",
    )
}

#[test]
fn lines_of_a_change_that_is_refused(rt: HostRuntime) -> Result<(), Fail> {
    assert_config_line(
        &rt,
        ConfigEvent::Wrong {
            why: b"route 2 (studio): mode = \"fast\": allowed are \"live\" and \"buffer\"\n",
        },
        "configuration not taken: route 2 (studio): mode = \"fast\": allowed are \"live\" and \"buffer\"\\x0a\n",
    )?;
    assert_config_line(
        &rt,
        ConfigEvent::NoMemory { route: b"studio" },
        "configuration not taken: no memory for studio\n",
    )?;
    assert_config_line(
        &rt,
        ConfigEvent::NoIndexes { opens: 12, left: 3 },
        "configuration not taken: 12 routes are to open, 3 indexes are left; restart the gateway\n",
    )?;
    assert_config_line(
        &rt,
        ConfigEvent::Unread {
            why: b"No such file or directory (os error 2)",
        },
        "configuration can't be read: No such file or directory (os error 2)\n",
    )?;
    assert_config_line(
        &rt,
        ConfigEvent::Held { route: b"studio" },
        "configuration closes studio, which has sessions; it is taken if it stays so for 5 s\n",
    )?;
    assert_config_line(
        &rt,
        ConfigEvent::FewIndexes { left: 111 },
        "111 of 511 indexes are left; each route that opens while the gateway runs uses one, restart it in a quiet hour\n",
    )
}

#[test]
fn a_long_line_is_cut_off(rt: HostRuntime) -> Result<(), Fail> {
    let requested = [b'x'; 2000];
    let mut out = Vec::new(rt.alloc());
    write_line(
        &mut out,
        Some(TIME),
        LogEvent::Refused {
            code: 1002,
            peer: near(1),
            name: &requested,
            by: None,
        },
    )?;
    assert_eq!(rt; out.len(), 1024);
    assert!(rt; out.as_slice().starts_with(&TIME));
    assert!(rt; out.as_slice().ends_with(b"xxxx\n"));
    Ok(())
}

#[test]
fn a_writer_that_is_full_is_an_error(rt: HostRuntime) {
    let mut place = [0u8; 8];
    let mut out = &mut place[..];
    assert!(rt; write_line(&mut out, None, LogEvent::LeftOut { count: 1 }).is_err());
}

#[test]
fn forty_lines_of_a_second_about_sessions(rt: HostRuntime) {
    let mut shares = LineShares::new();
    for _ in 0..40u32 {
        assert!(rt; shares.line(LineKind::Session, 5_999_999).written);
    }
    assert!(rt; !shares.line(LineKind::Session, 5_000_000).written);
    assert!(rt; !shares.line(LineKind::Session, 4_000_000).written);
    assert_eq!(rt; shares.left_out(), 2);
    assert_eq!(rt; shares.poll(5_999_999), 0);
    let next = shares.line(LineKind::Session, 6_000_000);
    assert!(rt; next.written);
    assert_eq!(rt; next.left_out, 2);
    assert_eq!(rt; shares.poll(7_000_000), 0);
}

/// What a publisher's session counts whose window was full this often, and of whose packets as many were late as given up.
fn received(full_window_acks: u64, late: u64) -> Traffic {
    Traffic::Received(srt_pub::Statistics {
        counts: srt_pub::Counts {
            arrived: 0,
            late,
            ahead: 0,
            received: 0,
            bytes: 0,
            delivered: 0,
            given_up: late,
            naks: 0,
            reported_lost: 0,
            full_window_acks,
        },
        in_use: 0,
        available: 32,
        rtt: 100_000,
        variance: 50_000,
        correction: None,
    })
}

/// The state of a subscriber's session with these counts.
fn sent_of(counts: srt_sub::Counts, sendings: srt_sub::Sendings) -> Traffic {
    Traffic::Sent(srt_sub::Statistics {
        counts,
        sendings,
        room: 32,
        in_flight: 0,
        flow_window: 32,
        rtt: 100_000,
        variance: 50_000,
    })
}

/// What a subscriber's session counts whose caller sent this many data packets.
fn sent(misdirected: u64) -> Traffic {
    let counts = srt_sub::Counts {
        queued: 0,
        bytes: 0,
        naks: 0,
        given_up: 0,
        misdirected,
    };
    let sendings = srt_sub::Sendings {
        fresh: 0,
        resent: 0,
    };
    sent_of(counts, sendings)
}

/// The state of a publisher's session with this socket ID.
fn view(id: u32, is_active: bool) -> SessionView {
    SessionView {
        peer: near(50123),
        caller: 1,
        id,
        role: Role::Publish,
        is_active,
        is_draining: false,
        opened: 7,
        heard: 7,
        latency_ms: 120,
        key_length: None,
        traffic: received(0, 0),
    }
}

/// An open session of this publisher.
fn session(id: u32, is_active: bool) -> SlotSession {
    SlotSession::Open(view(id, is_active))
}

/// The same, ended.
fn ended(id: u32) -> SlotSession {
    SlotSession::Ended(EndedSession {
        view: view(id, false),
        cause: EndCause::Shutdown,
        moment: 12_007,
    })
}

/// A route with these sessions in its slots 0 and 16.
fn route(first: Option<SlotSession>, last: Option<SlotSession>, opened: u64) -> RouteSnapshot {
    let mut slots = [None; MAX_SESSIONS];
    slots[0] = first;
    slots[16] = last;
    RouteSnapshot {
        moment: 4_000_007,
        stops: false,
        slots,
        ended: [None; MAX_SESSIONS],
        opened,
    }
}

/// The same, in whose first slot this session ended last.
fn route_after(end: EndedSession, route: RouteSnapshot) -> RouteSnapshot {
    let mut after = route;
    after.ended[0] = Some(end);
    after
}

/// Asserts that these changes, and no others, come between two looks, in this order.
fn assert_changes(rt: &impl Abort, old: &RouteSnapshot, new: &RouteSnapshot, want: &[Change]) {
    let mut seen = 0usize;
    for step in 0..STEPS {
        if let Some(change) = change_at(old, new, step) {
            assert!(rt; want.get(seen) == Some(&change));
            seen = seen.saturating_add(1);
        }
    }
    assert_eq!(rt; seen, want.len());
}

#[test]
fn openings_ends_and_a_take_over(rt: HostRuntime) {
    let none = route(None, None, 0);
    let one = route(Some(session(1, true)), None, 1);
    let two = route(Some(session(1, true)), Some(session(2, false)), 2);
    let over = route(Some(ended(1)), Some(session(2, true)), 2);
    assert_changes(&rt, &none, &one, &[Change::Opened { slot: 0 }]);
    assert_changes(&rt, &one, &two, &[Change::Opened { slot: 16 }]);
    assert_changes(
        &rt,
        &two,
        &over,
        &[Change::Ended { slot: 0 }, Change::TookOver { slot: 16 }],
    );
    assert_changes(&rt, &over, &over, &[]);
}

/// A route with an active publisher whose window was full this often and of whose packets this many were late, and a
/// subscriber that sent this many data packets.
fn troubled(full_window_acks: u64, late: u64, misdirected: u64) -> RouteSnapshot {
    let publisher = SessionView {
        traffic: received(full_window_acks, late),
        ..view(1, true)
    };
    let subscriber = SessionView {
        role: Role::Request,
        traffic: sent(misdirected),
        ..view(2, false)
    };
    route(
        Some(SlotSession::Open(publisher)),
        Some(SlotSession::Open(subscriber)),
        2,
    )
}

#[test]
fn a_trouble_is_reported_the_first_time(rt: HostRuntime) {
    let none = troubled(0, 0, 0);
    let some = troubled(0, 1, 9);
    let more = troubled(2, 1, 10);
    let late = Change::Troubled {
        slot: 0,
        trouble: Trouble::LatePackets,
    };
    let full = Change::Troubled {
        slot: 0,
        trouble: Trouble::FullWindow,
    };
    let misdirected = Change::Troubled {
        slot: 16,
        trouble: Trouble::Misdirected,
    };
    assert_changes(&rt, &none, &some, &[late, misdirected]);
    assert_changes(&rt, &some, &more, &[full]);
    assert_changes(&rt, &more, &more, &[]);
}

#[test]
fn lines_of_troubles(rt: HostRuntime) -> Result<(), Fail> {
    let none = troubled(0, 0, 0);
    assert_reported(
        &rt,
        &none,
        &troubled(0, 0, 1),
        "studio: subscriber 192.0.2.7:50123 sends data, but has not asked to publish (m=publish), socket 0x00000002\n",
    )?;
    assert_reported(
        &rt,
        &none,
        &troubled(1, 0, 0),
        "studio: publisher 192.0.2.7:50123 fills its window and waits, buffer is too small, socket 0x00000001\n",
    )?;
    assert_reported(
        &rt,
        &none,
        &troubled(0, 1, 0),
        "studio: publisher 192.0.2.7:50123 sends packets that arrive too late, socket 0x00000001\n",
    )
}

/// An end of the first session of a route that is closed, while the gateway stops or not.
fn closed(stops: bool) -> RouteSnapshot {
    let end = EndedSession {
        view: view(1, true),
        cause: EndCause::Closed,
        moment: 12_007,
    };
    RouteSnapshot {
        stops,
        ..route(slot_of(None, Some(end)), None, 1)
    }
}

#[test]
fn a_closed_route_ends_its_sessions(rt: HostRuntime) -> Result<(), Fail> {
    let open = route(slot_of(Some(view(1, true)), None), None, 1);
    assert_reported(
        &rt,
        &open,
        &closed(false),
        "studio: publisher 192.0.2.7:50123 ended, socket 0x00000001, its route was closed, after 12 ms, 0 packets, 0 bytes, 0 lost, 0 resent\n",
    )?;
    assert_reported(
        &rt,
        &open,
        &closed(true),
        "studio: publisher 192.0.2.7:50123 ended, socket 0x00000001, the gateway stops, after 12 ms, 0 packets, 0 bytes, 0 lost, 0 resent\n",
    )
}

/// A publisher's session that was opened at 1 s, with this correction of its clock.
fn followed(correction: Option<i64>) -> SessionView {
    let mut seen = view(1, true);
    seen.opened = 1_000_000;
    seen.traffic = Traffic::Received(srt_pub::Statistics {
        counts: srt_pub::Counts::none(),
        in_use: 0,
        available: 32,
        rtt: 100_000,
        variance: 50_000,
        correction,
    });
    seen
}

/// Asserts that a session with this correction has this line if it ends at this time by a SHUTDOWN.
fn assert_followed<R: Abort + AllocGlobal>(
    rt: &R,
    correction: Option<i64>,
    moment: u64,
    line: &str,
) -> Result<(), Fail> {
    let end = EndedSession {
        view: followed(correction),
        cause: EndCause::Shutdown,
        moment,
    };
    let open = route(slot_of(Some(followed(correction)), None), None, 1);
    let after = route(slot_of(None, Some(end)), None, 1);
    assert_reported(rt, &open, &after, line)
}

#[test]
fn the_end_of_a_publisher_has_its_clock(rt: HostRuntime) -> Result<(), Fail> {
    assert_followed(
        &rt,
        Some(12_061),
        37_710_000,
        "studio: publisher 192.0.2.7:50123 ended, socket 0x00000001, its peer sent a SHUTDOWN, after 36710 ms, 0 packets, 0 bytes, 0 lost, 0 resent, clock drift 328 ppm, correction 12061 us\n",
    )?;
    assert_followed(
        &rt,
        Some(-1_100),
        3_200_010,
        "studio: publisher 192.0.2.7:50123 ended, socket 0x00000001, its peer sent a SHUTDOWN, after 2200 ms, 0 packets, 0 bytes, 0 lost, 0 resent, clock drift -499 ppm, correction -1100 us\n",
    )?;
    assert_followed(
        &rt,
        Some(0),
        1_000_000,
        "studio: publisher 192.0.2.7:50123 ended, socket 0x00000001, its peer sent a SHUTDOWN, after 0 ms, 0 packets, 0 bytes, 0 lost, 0 resent, clock drift 0 ppm, correction 0 us\n",
    )?;
    assert_followed(
        &rt,
        None,
        3_200_010,
        "studio: publisher 192.0.2.7:50123 ended, socket 0x00000001, its peer sent a SHUTDOWN, after 2200 ms, 0 packets, 0 bytes, 0 lost, 0 resent\n",
    )
}

#[test]
fn the_end_of_a_publisher_that_is_gone_has_its_clock(rt: HostRuntime) -> Result<(), Fail> {
    let old = route(slot_of(Some(followed(Some(-1_501))), None), None, 1);
    let new = route(Some(session(2, true)), None, 2);
    assert_reported(
        &rt,
        &old,
        &new,
        "studio: publisher 192.0.2.7:50123 ended, socket 0x00000001, its slot was taken again, after 3000 ms, 0 packets, 0 bytes, 0 lost, 0 resent, clock drift -500 ppm, correction -1501 us\nstudio: publisher 192.0.2.7:50123 opened, socket 0x00000002, latency 120 ms\n",
    )
}

#[test]
fn the_end_of_a_session_whose_slot_is_taken_is_reported_if_it_was_the_last_one(
    rt: HostRuntime,
) -> Result<(), Fail> {
    let old = route(Some(session(1, true)), None, 1);
    let taken = route(Some(session(2, true)), None, 2);
    let end = EndedSession {
        view: view(1, true),
        cause: EndCause::Silence,
        moment: 12_007,
    };
    assert_reported(
        &rt,
        &old,
        &route_after(end, taken),
        "studio: publisher 192.0.2.7:50123 ended, socket 0x00000001, nothing arrived from its peer, after 12 ms, 0 packets, 0 bytes, 0 lost, 0 resent\nstudio: publisher 192.0.2.7:50123 opened, socket 0x00000002, latency 120 ms\n",
    )?;
    let other = EndedSession {
        view: view(3, true),
        ..end
    };
    assert_reported(
        &rt,
        &old,
        &route_after(other, taken),
        "studio: publisher 192.0.2.7:50123 ended, socket 0x00000001, its slot was taken again, after 4000 ms, 0 packets, 0 bytes, 0 lost, 0 resent\nstudio: publisher 192.0.2.7:50123 opened, socket 0x00000002, latency 120 ms\n",
    )
}

#[test]
fn a_slot_that_was_taken_again(rt: HostRuntime) {
    let old = route(Some(session(1, true)), None, 1);
    let new = route(Some(ended(257)), Some(session(2, true)), 3);
    assert_changes(
        &rt,
        &old,
        &new,
        &[
            Change::Gone { slot: 0 },
            Change::Opened { slot: 0 },
            Change::Ended { slot: 0 },
            Change::Opened { slot: 16 },
        ],
    );
}

#[test]
fn what_came_and_went_is_counted(rt: HostRuntime) {
    let old = route(None, None, 4);
    let new = route(Some(session(1, true)), None, 8);
    assert_changes(
        &rt,
        &old,
        &new,
        &[Change::Opened { slot: 0 }, Change::Unseen { opened: 3 }],
    );
    assert!(rt; change_at(&old, &new, STEPS).is_none());
}

/// Asserts that the changes between two looks at the route `studio` have these lines.
fn assert_reported<R: Abort + AllocGlobal>(
    rt: &R,
    old: &RouteSnapshot,
    new: &RouteSnapshot,
    lines: &str,
) -> Result<(), Fail> {
    let mut out = Vec::new(rt.alloc());
    for step in 0..STEPS {
        if let Some(change) = change_at(old, new, step) {
            if let Some(event) = event_of(b"studio", old, new, change) {
                write_line(&mut out, None, event)?;
            }
        }
    }
    assert_eq!(rt; out.as_slice(), lines.as_bytes());
    Ok(())
}

#[test]
fn lines_of_changes(rt: HostRuntime) -> Result<(), Fail> {
    let none = route(None, None, 0);
    let two = route(Some(session(1, true)), Some(session(2, false)), 2);
    let over = route(Some(ended(1)), Some(session(2, true)), 2);
    let again = route(Some(session(257, false)), Some(session(2, true)), 4);
    assert_reported(
        &rt,
        &none,
        &two,
        "studio: publisher 192.0.2.7:50123 opened, socket 0x00000001, latency 120 ms\n\
studio: publisher 192.0.2.7:50123 opened as standby, socket 0x00000002, latency 120 ms\n",
    )?;
    assert_reported(
        &rt,
        &two,
        &over,
        "studio: publisher 192.0.2.7:50123 ended, socket 0x00000001, its peer sent a SHUTDOWN, after 12 ms, 0 packets, 0 bytes, 0 lost, 0 resent\n\
studio: publisher 192.0.2.7:50123 took over, socket 0x00000002\n",
    )?;
    assert_reported(
        &rt,
        &two,
        &again,
        "studio: publisher 192.0.2.7:50123 ended, socket 0x00000001, its slot was taken again, after 4000 ms, 0 packets, 0 bytes, 0 lost, 0 resent\n\
studio: publisher 192.0.2.7:50123 opened as standby, socket 0x00000101, latency 120 ms\n\
studio: publisher 192.0.2.7:50123 took over, socket 0x00000002\n\
studio: 1 sessions opened and ended unseen\n",
    )
}
