//! Texts as programs and people read them, requests as callers send them, and a connection from its beginning to its end.

use crate::{
    CauseCounts, ChangeCounts, Connection, EndCounts, EventRing, GatewayStatus, LimitCounts,
    Method, OVERVIEW, Page, ProcessUse, RefusalCounts, Request, RouteHistory, RouteStatus,
    put_json, put_metrics, request_in, respond,
};
use srt_route::{SessionView, Totals, Traffic};
use srt_sub::Sendings;
use srt_supervision::Report;
use srt_types::product_limits::{MAX_REQUEST, MAX_SESSIONS, REQUEST_TIMEOUT};
use srt_types::{KeyLength, Mode, Peer, Role};
use std::process::Abort;
use std::str;
use std::test::Fail;

/// 192.0.2.7
const NEAR: [u8; 16] = [0, 0, 0, 0, 0, 0, 0, 0, 0, 0, 0xff, 0xff, 192, 0, 2, 7];

/// 2001:db8::1
const FAR: [u8; 16] = [0x20, 0x01, 0x0d, 0xb8, 0, 0, 0, 0, 0, 0, 0, 0, 0, 0, 0, 1];

/// A gateway of one route that has worked for 61 seconds.
pub(crate) fn gateway() -> GatewayStatus<'static> {
    GatewayStatus {
        version: "0.6.0",
        uptime_seconds: 61,
        moment: 61_500_000,
        routes: 1,
        polling: true,
        poller: Report {
            read: 9,
            answered: 2,
            accepted: 3,
            full: 1,
            dropped: 2,
            not_allowed: 1,
            memory: 1,
            sent: 8,
            lost: 7,
            faults: 6,
        },
        refused: RefusalCounts {
            peer: 5,
            resource: 0,
            rogue: 0,
            version: 4,
            bad_secret: 0,
            unsecure: 0,
            message_api: 0,
            filter: 0,
            group: 0,
        },
        causes: CauseCounts {
            no_name: 0,
            unknown_name: 1,
            publish_from: 2,
            request_from: 0,
            publish_key: 3,
            request_key: 4,
        },
        changes: ChangeCounts {
            taken: 3,
            refused: 2,
            indexes: 17,
        },
        kernel_drops: None,
        resident_bytes: Some(1_048_576),
        process: ProcessUse::default(),
        receive_buffer_bytes: None,
    }
}

/// The active publisher at 192.0.2.7. Of the 109 packets that came, 2 are counted under nothing else.
pub(crate) fn publisher() -> SessionView {
    SessionView {
        peer: Peer {
            ip: NEAR,
            port: 5000,
        },
        caller: 1,
        id: 0x0010_0000,
        role: Role::Publish,
        is_active: true,
        is_draining: false,
        opened: 1_500_000,
        heard: 61_499_000,
        latency_ms: 120,
        key_length: None,
        traffic: Traffic::Received(srt_pub::Statistics {
            counts: srt_pub::Counts {
                arrived: 109,
                received: 100,
                bytes: 131_600,
                delivered: 98,
                late: 3,
                ahead: 4,
                given_up: 5,
                reported_lost: 6,
                naks: 7,
                full_window_acks: 8,
            },
            in_use: 10,
            available: 22,
            rtt: 20_345,
            variance: 7,
            correction: None,
        }),
    }
}

/// A subscriber at an IPv6 address, in buffer mode.
fn subscriber() -> SessionView {
    SessionView {
        peer: Peer { ip: FAR, port: 9 },
        caller: 2,
        id: 0xfedc_ba98,
        role: Role::Request,
        is_active: false,
        is_draining: false,
        opened: 0,
        heard: 0,
        latency_ms: 0,
        key_length: None,
        traffic: Traffic::Sent(srt_sub::Statistics {
            counts: srt_sub::Counts {
                queued: 11,
                bytes: 12,
                given_up: 15,
                naks: 16,
                misdirected: 17,
            },
            sendings: Sendings {
                fresh: 13,
                resent: 14,
            },
            room: 18,
            in_flight: 19,
            flow_window: 20,
            rtt: 1_000_000,
            variance: 0,
        }),
    }
}

/// A route of this name with these sessions in its slots 1 and 16.
pub(crate) fn route<R: AllocGlobal>(
    rt: &R,
    name: &str,
    first: Option<SessionView>,
    last: Option<SessionView>,
) -> Result<RouteStatus, Fail> {
    let mut sessions = [None; MAX_SESSIONS];
    sessions[1] = first;
    sessions[16] = last;
    Ok(RouteStatus {
        expectation: None,
        name: String::from_str(rt.alloc(), name)?,
        mode: Mode::Live,
        sessions_allowed: 5,
        sessions,
        totals: Totals {
            received: srt_pub::Counts {
                arrived: 1006,
                received: 1000,
                bytes: 1_316_000,
                delivered: 990,
                late: 2,
                ahead: 3,
                given_up: 4,
                reported_lost: 5,
                naks: 6,
                full_window_acks: 7,
            },
            queued: srt_sub::Counts {
                queued: 8,
                bytes: 9,
                given_up: 12,
                naks: 13,
                misdirected: 14,
            },
            sent: Sendings {
                fresh: 10,
                resent: 11,
            },
        },
        opened: 3,
        refused: RefusalCounts {
            peer: 0,
            resource: 2,
            rogue: 0,
            version: 0,
            bad_secret: 6,
            unsecure: 0,
            message_api: 0,
            filter: 0,
            group: 1,
        },
        limits: Some(LimitCounts {
            sessions: 0,
            reserved: 2,
            sessions_per_address: 0,
        }),
        take_overs: Some(1),
        ends: None,
        history: RouteHistory::new(),
    })
}

/// Lines of the figures of that gateway with that route, as the text format wants them.
const LINES: [&str; 29] = [
    "# HELP srtgw_build_info The version of the program.\n# TYPE srtgw_build_info gauge\nsrtgw_build_info{version=\"0.6.0\"} 1\n# HELP srtgw_up ",
    "\n# TYPE srtgw_up gauge\nsrtgw_up 1\n",
    "\nsrtgw_uptime_seconds 61\n",
    "\nsrtgw_resident_memory_bytes 1048576\n",
    "\n# TYPE srtgw_poller_read_datagrams_total counter\nsrtgw_poller_read_datagrams_total 9\n",
    "\nsrtgw_poller_faults_total 6\n",
    "\nsrtgw_poller_not_allowed_datagrams_total 1\n",
    "\n# TYPE srtgw_lobby_refused_publish_from_total counter\nsrtgw_lobby_refused_publish_from_total 2\n",
    "\nsrtgw_lobby_refused_request_key_total 4\n",
    "\n# TYPE srtgw_config_changes_refused_total counter\nsrtgw_config_changes_refused_total 2\n",
    "\n# TYPE srtgw_used_indexes gauge\nsrtgw_used_indexes 17\n",
    "\nsrtgw_lobby_refusals_total{code=\"1002\",reason=\"PEER\"} 5\n",
    "\n# TYPE srtgw_lobby_refusal_causes_total counter\nsrtgw_lobby_refusal_causes_total{cause=\"no_name\"} 0\nsrtgw_lobby_refusal_causes_total{cause=\"unknown_name\"} 1\nsrtgw_lobby_refusal_causes_total{cause=\"publish_from\"} 2\n",
    "\n# TYPE process_resident_memory_bytes gauge\nprocess_resident_memory_bytes 1048576\n# HELP srtgw_route_sessions ",
    "\nsrtgw_route_sessions{route=\"a\\\"b\",role=\"publisher\"} 1\nsrtgw_route_sessions{route=\"a\\\"b\",role=\"subscriber\"} 1\n",
    "\nsrtgw_route_allowed_sessions{route=\"a\\\"b\"} 5\n",
    "\nsrtgw_route_refused_reserved_total{route=\"a\\\"b\"} 2\n",
    "\nsrtgw_route_refusals_total{route=\"a\\\"b\",code=\"1010\",reason=\"BADSECRET\"} 6\n",
    "\nsrtgw_route_refusals_total{route=\"a\\\"b\",code=\"1015\",reason=\"GROUP\"} 1\n",
    "\nsrtgw_route_received_bytes_total{route=\"a\\\"b\",role=\"publisher\"} 1316000\n",
    "\nsrtgw_route_given_up_packets_total{route=\"a\\\"b\",role=\"publisher\"} 4\nsrtgw_route_given_up_packets_total{route=\"a\\\"b\",role=\"subscriber\"} 12\n",
    "\nsrtgw_route_misdirected_packets_total{route=\"a\\\"b\",role=\"subscriber\"} 14\n",
    "\n# TYPE srtgw_session_round_trip_seconds gauge\nsrtgw_session_round_trip_seconds{route=\"a\\\"b\",role=\"publisher\",session=\"00100000\",peer=\"192.0.2.7:5000\"} 0.020345\nsrtgw_session_round_trip_seconds{route=\"a\\\"b\",role=\"subscriber\",session=\"fedcba98\",peer=\"[2001:db8::1]:9\"} 1.000000\n",
    "\nsrtgw_session_open_seconds{route=\"a\\\"b\",role=\"publisher\",session=\"00100000\",peer=\"192.0.2.7:5000\"} 60.000000\n",
    "\nsrtgw_session_silent_seconds{route=\"a\\\"b\",role=\"publisher\",session=\"00100000\",peer=\"192.0.2.7:5000\"} 0.001000\n",
    "\n# TYPE srtgw_session_latency_seconds gauge\nsrtgw_session_latency_seconds{route=\"a\\\"b\",role=\"publisher\",session=\"00100000\",peer=\"192.0.2.7:5000\"} 0.120000\n# HELP srtgw_session_round_trip_seconds ",
    "\nsrtgw_session_window_available_packets{route=\"a\\\"b\",role=\"publisher\",session=\"00100000\",peer=\"192.0.2.7:5000\"} 22\n",
    "\nsrtgw_session_late_packets_total{route=\"a\\\"b\",role=\"publisher\",session=\"00100000\",peer=\"192.0.2.7:5000\"} 3\n",
    "\nsrtgw_session_misdirected_packets_total{route=\"a\\\"b\",role=\"subscriber\",session=\"fedcba98\",peer=\"[2001:db8::1]:9\"} 17\n",
];

/// Asserts that a text has each of these pieces.
fn assert_pieces(rt: &impl Abort, text: &str, pieces: &[&'static str]) {
    for piece in pieces {
        assert!(rt; text.contains(*piece));
    }
}

#[test]
fn figures_of_a_gateway(rt: HostRuntime) -> Result<(), Fail> {
    let routes = [route(&rt, "a\"b", Some(publisher()), Some(subscriber()))?];
    let mut out = Vec::new(rt.alloc());
    put_metrics(&mut out, &gateway(), &routes)?;
    let Ok(text) = str::from_utf8(out.as_slice()) else {
        panic!(rt; "not UTF-8");
    };
    assert_pieces(&rt, text, &LINES);
    assert!(rt; !text.contains("kernel_dropped"));
    Ok(())
}

/// The status of that gateway with one route that has one session.
const STATUS: &str =
    "{\"version\":\"0.6.0\",\"up\":1,\"uptime_seconds\":61,\"configured_routes\":1,\"resident_memory_bytes\":1048576,\"poller_read_datagrams_total\":9,\"poller_answered_datagrams_total\":2,\"poller_accepted_datagrams_total\":3,\"poller_full_datagrams_total\":1,\"poller_dropped_datagrams_total\":2,\"poller_not_allowed_datagrams_total\":1,\"poller_memory_datagrams_total\":1,\"poller_sent_datagrams_total\":8,\"poller_lost_datagrams_total\":7,\"poller_faults_total\":6,\"lobby_refused_no_name_total\":0,\"lobby_refused_unknown_name_total\":1,\"lobby_refused_publish_from_total\":2,\"lobby_refused_request_from_total\":0,\"lobby_refused_publish_key_total\":3,\"lobby_refused_request_key_total\":4,\"config_changes_taken_total\":3,\"config_changes_refused_total\":2,\"used_indexes\":17,\"refusals_PEER\":5,\"refusals_RESOURCE\":0,\"refusals_ROGUE\":0,\"refusals_VERSION\":4,\"refusals_BADSECRET\":0,\"refusals_UNSECURE\":0,\"refusals_MESSAGEAPI\":0,\"refusals_FILTER\":0,\"refusals_GROUP\":0,\"process_resident_memory_bytes\":1048576,\"routes\":[{\"name\":\"studio\",\"mode\":\"live\",\"allowed_sessions\":5,\"opened_sessions_total\":3,\"take_overs_total\":1,\"refused_sessions_total\":0,\"refused_reserved_total\":2,\"refused_sessions_per_address_total\":0,\"refusals_PEER\":0,\"refusals_RESOURCE\":2,\"refusals_ROGUE\":0,\"refusals_VERSION\":0,\"refusals_BADSECRET\":6,\"refusals_UNSECURE\":0,\"refusals_MESSAGEAPI\":0,\"refusals_FILTER\":0,\"refusals_GROUP\":1,\"publishers\":{\"role\":\"publisher\",\"received_packets_total\":1000,\"received_bytes_total\":1316000,\"delivered_packets_total\":990,\"repeated_packets_total\":1,\"late_packets_total\":2,\"ahead_packets_total\":3,\"reported_lost_packets_total\":5,\"naks_sent_total\":6,\"full_window_acks_total\":7,\"given_up_packets_total\":4},\"subscribers\":{\"role\":\"subscriber\",\"given_up_packets_total\":12,\"queued_packets_total\":8,\"queued_bytes_total\":9,\"sent_packets_total\":10,\"resent_packets_total\":11,\"naks_taken_total\":13,\"misdirected_packets_total\":14},\"sessions\":[{\"role\":\"subscriber\",\"session\":\"fedcba98\",\"peer\":\"[2001:db8::1]:9\",\"open_seconds\":61.500000,\"silent_seconds\":61.500000,\"round_trip_seconds\":1.000000,\"round_trip_variance_seconds\":0.000000,\"free_packets\":18,\"in_flight_packets\":19,\"flow_window_packets\":20,\"given_up_packets_total\":15,\"queued_packets_total\":11,\"queued_bytes_total\":12,\"sent_packets_total\":13,\"resent_packets_total\":14,\"naks_taken_total\":16,\"misdirected_packets_total\":17}]}]}\n";

#[test]
fn status_of_a_gateway(rt: HostRuntime) -> Result<(), Fail> {
    let one = [route(&rt, "studio", None, Some(subscriber()))?];
    let mut out = Vec::new(rt.alloc());
    put_json(&mut out, &gateway(), &one)?;
    assert_eq!(rt; out.as_slice(), STATUS.as_bytes());
    Ok(())
}

/// Asserts that the metrics and the status of this gateway with these routes have these pieces.
fn assert_shown<R: Abort + AllocGlobal>(
    rt: &R,
    gateway: &GatewayStatus<'_>,
    routes: &[RouteStatus],
    pieces: &[&'static str],
) -> Result<(), Fail> {
    let mut page = Vec::new(rt.alloc());
    put_metrics(&mut page, gateway, routes)?;
    put_json(&mut page, gateway, routes)?;
    let Ok(text) = str::from_utf8(page.as_slice()) else {
        panic!(rt; "not UTF-8");
    };
    assert_pieces(rt, text, pieces);
    Ok(())
}

#[test]
fn what_the_process_uses(rt: HostRuntime) -> Result<(), Fail> {
    let mut gateway = gateway();
    gateway.receive_buffer_bytes = Some(425_984);
    gateway.process = ProcessUse {
        cpu_micros: Some(12_340_000),
        open_descriptors: Some(9),
        most_descriptors: Some(1024),
        started_micros: Some(1_795_970_000_120_000),
    };
    assert_shown(
        &rt,
        &gateway,
        &[],
        &[
            "\n# TYPE srtgw_receive_buffer_bytes gauge\nsrtgw_receive_buffer_bytes 425984\n",
            "\n# HELP process_cpu_seconds_total Processor time of the process, user and system.\n# TYPE process_cpu_seconds_total counter\nprocess_cpu_seconds_total 12.340000\n",
            "\nprocess_open_fds 9\n",
            "\nprocess_max_fds 1024\n",
            "\nprocess_start_time_seconds 1795970000.120000\n",
            ",\"process_cpu_seconds_total\":12.340000,\"process_resident_memory_bytes\":1048576,\"process_open_fds\":9,\"process_max_fds\":1024,\"process_start_time_seconds\":1795970000.120000,\"routes\":[]}\n",
        ],
    )
}

#[test]
fn keys_of_encrypted_sessions(rt: HostRuntime) -> Result<(), Fail> {
    let encoder = SessionView {
        key_length: Some(KeyLength::Aes256),
        ..publisher()
    };
    let player = SessionView {
        key_length: Some(KeyLength::Aes128),
        ..subscriber()
    };
    assert_shown(
        &rt,
        &gateway(),
        &[route(&rt, "studio", Some(encoder), Some(player))?],
        &[
            "\n# HELP srtgw_session_key_length_bytes The length of the keys of an encrypted session: 16, 24 or 32.\n# TYPE srtgw_session_key_length_bytes gauge\nsrtgw_session_key_length_bytes{route=\"studio\",role=\"publisher\",session=\"00100000\",peer=\"192.0.2.7:5000\"} 32\nsrtgw_session_key_length_bytes{route=\"studio\",role=\"subscriber\",session=\"fedcba98\",peer=\"[2001:db8::1]:9\"} 16\n",
            ",\"window_available_packets\":22,\"key_length_bytes\":32,\"received_packets_total\":100,",
            ",\"flow_window_packets\":20,\"key_length_bytes\":16,\"given_up_packets_total\":15,",
        ],
    )
}

#[test]
fn ends_of_sessions_by_reason(rt: HostRuntime) -> Result<(), Fail> {
    let mut studio = route(&rt, "studio", None, None)?;
    studio.ends = Some(EndCounts {
        shutdown: 7,
        silence: 2,
        ..EndCounts::default()
    });
    assert_shown(
        &rt,
        &gateway(),
        &[studio],
        &[
            "\n# TYPE srtgw_route_ends_total counter\nsrtgw_route_ends_total{route=\"studio\",reason=\"shutdown\"} 7\nsrtgw_route_ends_total{route=\"studio\",reason=\"drained_too_long\"} 0\nsrtgw_route_ends_total{route=\"studio\",reason=\"silence\"} 2\n",
            ",\"refusals_GROUP\":1,\"ends_shutdown\":7,\"ends_drained_too_long\":0,\"ends_silence\":2,\"ends_window_lost\":0,\"ends_stream_end\":0,\"ends_route_closed\":0,\"ends_unknown\":0,\"publishers\":{",
        ],
    )
}

/// That publisher, with this correction of its clock.
fn followed(correction: Option<i64>) -> SessionView {
    let mut session = publisher();
    if let Traffic::Received(statistics) = &mut session.traffic {
        statistics.correction = correction;
    }
    session
}

/// Asserts that the metrics of a route of this publisher have these lines, and its status this text.
fn assert_clock<R: Abort + AllocGlobal>(
    rt: &R,
    session: SessionView,
    lines: &[&'static str],
    status: &'static str,
) -> Result<(), Fail> {
    let routes = [route(rt, "studio", Some(session), None)?];
    assert_shown(rt, &gateway(), &routes, lines)?;
    assert_shown(rt, &gateway(), &routes, &[status])
}

#[test]
fn clock_of_a_publisher(rt: HostRuntime) -> Result<(), Fail> {
    assert_clock(
        &rt,
        followed(Some(1_012_061)),
        &[
            "\n# TYPE srtgw_session_publisher_clock_drift_ppm gauge\nsrtgw_session_publisher_clock_drift_ppm{route=\"studio\",role=\"publisher\",session=\"00100000\",peer=\"192.0.2.7:5000\"} 16867\n# HELP srtgw_session_publisher_clock_correction_seconds ",
            "\n# TYPE srtgw_session_publisher_clock_correction_seconds gauge\nsrtgw_session_publisher_clock_correction_seconds{route=\"studio\",role=\"publisher\",session=\"00100000\",peer=\"192.0.2.7:5000\"} 1.012061\n# HELP ",
        ],
        ",\"window_available_packets\":22,\"publisher_clock_drift_ppm\":16867,\"publisher_clock_correction_seconds\":1.012061,\"received_packets_total\":100,",
    )?;
    assert_clock(
        &rt,
        followed(Some(-29_999)),
        &[
            "\"} -499\n# HELP srtgw_session_publisher_clock_correction_seconds ",
            "\nsrtgw_session_publisher_clock_correction_seconds{route=\"studio\",role=\"publisher\",session=\"00100000\",peer=\"192.0.2.7:5000\"} -0.029999\n",
        ],
        ",\"publisher_clock_drift_ppm\":-499,\"publisher_clock_correction_seconds\":-0.029999,",
    )?;
    assert_clock(
        &rt,
        publisher(),
        &[
            "\n# TYPE srtgw_session_publisher_clock_drift_ppm gauge\n# HELP srtgw_session_publisher_clock_correction_seconds ",
        ],
        ",\"window_available_packets\":22,\"received_packets_total\":100,",
    )
}

#[test]
fn clock_of_a_publisher_at_its_opening(rt: HostRuntime) -> Result<(), Fail> {
    let mut session = followed(Some(0));
    session.opened = 61_500_000;
    assert_clock(
        &rt,
        session,
        &[],
        ",\"publisher_clock_drift_ppm\":0,\"publisher_clock_correction_seconds\":0.000000,",
    )
}

#[test]
fn commas_between_routes_and_sessions(rt: HostRuntime) -> Result<(), Fail> {
    let both = [
        route(&rt, "one", Some(publisher()), Some(subscriber()))?,
        route(&rt, "two", None, None)?,
    ];
    let mut out = Vec::new(rt.alloc());
    put_json(&mut out, &gateway(), &both)?;
    let Ok(text) = str::from_utf8(out.as_slice()) else {
        panic!(rt; "not UTF-8");
    };
    assert_pieces(
        &rt,
        text,
        &[
            "\"sessions\":[{\"role\":\"publisher\",\"session\":\"00100000\",\"peer\":\"192.0.2.7:5000\",\"active\":1,",
            "\"given_up_packets_total\":5},{\"role\":\"subscriber\",",
            "\"misdirected_packets_total\":17}]},{\"name\":\"two\",",
            "\"sessions\":[]}]}\n",
        ],
    );
    Ok(())
}

/// What bytes ask for.
struct Requested {
    bytes: &'static [u8],
    request: Option<Request>,
}

const ASKED: [Requested; 12] = [
    Requested {
        bytes: b"GET / HTTP/1.1\r\nHost: x\r\n\r\n",
        request: Some(Request::Page {
            method: Method::Get,
            page: Page::Overview,
        }),
    },
    Requested {
        bytes: b"GET /status.json?at=1 HTTP/1.1\r\n\r\n",
        request: Some(Request::Page {
            method: Method::Get,
            page: Page::Json,
        }),
    },
    Requested {
        bytes: b"HEAD /metrics HTTP/1.0\r\n\r\n",
        request: Some(Request::Page {
            method: Method::Head,
            page: Page::Metrics,
        }),
    },
    Requested {
        bytes: b"GET /healthz HTTP/1.1\r\n\r\n",
        request: Some(Request::Page {
            method: Method::Get,
            page: Page::Health,
        }),
    },
    Requested {
        bytes: b"GET /metricsx HTTP/1.1\r\n\r\n",
        request: Some(Request::Unknown {
            method: Method::Get,
        }),
    },
    Requested {
        bytes: b"HEAD /favicon.ico HTTP/1.1\r\n\r\n",
        request: Some(Request::Unknown {
            method: Method::Head,
        }),
    },
    Requested {
        bytes: b"POST /metrics HTTP/1.1\r\n\r\n",
        request: Some(Request::NotAllowed),
    },
    Requested {
        bytes: b"get / HTTP/1.1\r\n\r\n",
        request: Some(Request::NotAllowed),
    },
    Requested {
        bytes: b"",
        request: None,
    },
    Requested {
        bytes: b"GET / HTTP/1.1\r\nHost: x\r\n",
        request: None,
    },
    Requested {
        bytes: b"\x16\x03\x01\x02\x00",
        request: Some(Request::Bad),
    },
    Requested {
        bytes: b"GET / HTTP/3.0\r\n\r\n",
        request: Some(Request::Bad),
    },
];

fn assert_requested(rt: &impl Abort, rows: &[Requested]) {
    for row in rows {
        assert!(rt; request_in(row.bytes) == row.request);
    }
}

#[test]
fn what_bytes_ask_for(rt: HostRuntime) {
    assert_requested(&rt, &ASKED);
}

#[test]
fn a_head_that_is_too_long(rt: HostRuntime) {
    let mut bytes = [b'a'; MAX_REQUEST];
    bytes[..5].copy_from_slice(b"GET /");
    assert!(rt; request_in(&bytes[..4095]).is_none());
    assert!(rt; request_in(&bytes) == Some(Request::TooLong));
}

/// Asserts that a request gets this response, where no route is configured.
fn assert_answer<R: Abort + AllocGlobal>(
    rt: &R,
    request: Request,
    polling: bool,
    text: &str,
) -> Result<(), Fail> {
    let mut status = gateway();
    status.polling = polling;
    let response = respond(rt.alloc(), request, b"<p>", &status, &[], &EventRing::new())?;
    assert_eq!(rt; response.as_slice(), text.as_bytes());
    Ok(())
}

#[test]
fn responses(rt: HostRuntime) -> Result<(), Fail> {
    assert_answer(
        &rt,
        Request::Page {
            method: Method::Get,
            page: Page::Health,
        },
        true,
        "HTTP/1.1 200 OK\r\nCache-Control: no-store\r\nConnection: close\r\nX-Content-Type-Options: nosniff\r\nContent-Type: text/plain; charset=utf-8\r\nContent-Length: 3\r\n\r\nok\n",
    )?;
    assert_answer(
        &rt,
        Request::Page {
            method: Method::Head,
            page: Page::Health,
        },
        false,
        "HTTP/1.1 503 Service Unavailable\r\nCache-Control: no-store\r\nConnection: close\r\nX-Content-Type-Options: nosniff\r\nContent-Type: text/plain; charset=utf-8\r\nContent-Length: 28\r\n\r\n",
    )?;
    assert_answer(
        &rt,
        Request::NotAllowed,
        true,
        "HTTP/1.1 405 Method Not Allowed\r\nCache-Control: no-store\r\nConnection: close\r\nX-Content-Type-Options: nosniff\r\nAllow: GET, HEAD\r\nContent-Length: 0\r\n\r\n",
    )?;
    assert_answer(
        &rt,
        Request::TooLong,
        true,
        "HTTP/1.1 431 Request Header Fields Too Large\r\nCache-Control: no-store\r\nConnection: close\r\nX-Content-Type-Options: nosniff\r\nContent-Type: text/plain; charset=utf-8\r\nContent-Length: 9\r\n\r\ntoo long\n",
    )
}

#[test]
fn the_page_for_people(rt: HostRuntime) -> Result<(), Fail> {
    let request = Request::Page {
        method: Method::Get,
        page: Page::Overview,
    };
    let response = respond(
        rt.alloc(),
        request,
        OVERVIEW.as_bytes(),
        &gateway(),
        &[],
        &EventRing::new(),
    )?;
    let Ok(text) = str::from_utf8(response.as_slice()) else {
        panic!(rt; "not UTF-8");
    };
    assert_pieces(
        &rt,
        text,
        &[
            "HTTP/1.1 200 OK\r\n",
            "\r\nContent-Security-Policy: default-src 'none'; connect-src 'self'; script-src 'sha256-",
            "\r\n\r\n<!doctype html>\n",
            "ask(\"/status.json\")",
            "m=publish is missing",
        ],
    );
    Ok(())
}

#[test]
fn a_connection_to_its_end(rt: HostRuntime) -> Result<(), Fail> {
    let mut connection = Connection::new(rt.alloc(), 1000);
    connection.receive(b"GET / HT")?;
    assert!(rt; request_in(connection.received()).is_none());
    assert!(rt; !connection.is_over(REQUEST_TIMEOUT + 999));
    assert!(rt; connection.is_over(REQUEST_TIMEOUT + 1000));
    connection.receive(b"TP/1.1\r\n\r\n")?;
    assert!(rt; request_in(connection.received()).is_some());
    let response = Vec::from_slice(rt.alloc(), b"HTTP/1.1")?;
    connection.answer(5000, response);
    assert!(rt; connection.is_answered());
    assert!(rt; !connection.is_over(REQUEST_TIMEOUT + 1000));
    connection.sent(3);
    assert_eq!(rt; connection.left(), b"P/1.1".as_slice());
    connection.sent(5);
    assert!(rt; connection.left().is_empty());
    assert!(rt; connection.is_over(5001));
    Ok(())
}

#[test]
fn a_connection_takes_no_more_than_a_request(rt: HostRuntime) -> Result<(), Fail> {
    let mut connection = Connection::new(rt.alloc(), 0);
    connection.receive(&[b'a'; 3000])?;
    connection.receive(&[b'b'; 3000])?;
    assert_eq!(rt; connection.received().len(), MAX_REQUEST);
    assert!(rt; connection.received()[2999] == b'a');
    assert!(rt; connection.received()[3000] == b'b');
    Ok(())
}
