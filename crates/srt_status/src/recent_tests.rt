//! The last lines of the log and the last hour of a route, as programs read them.

use crate::tests::{gateway, publisher, route};
use crate::{EventRing, Method, Page, Request, RouteHistory, RouteStatus, respond, round_trip_in};
use std::process::Abort;
use std::str;
use std::test::Fail;

/// Asserts that a page ends with this body.
fn assert_body<R: Abort + AllocGlobal>(
    rt: &R,
    page: Page,
    routes: &[RouteStatus],
    ring: &EventRing,
    body: &str,
) -> Result<(), Fail> {
    let request = Request::Page {
        method: Method::Get,
        page,
    };
    let response = respond(rt.alloc(), request, b"", &gateway(), routes, ring)?;
    let Ok(text) = str::from_utf8(response.as_slice()) else {
        panic!(rt; "not UTF-8");
    };
    let Some((head, found)) = text.split_once("\r\n\r\n") else {
        panic!(rt; "no head");
    };
    assert!(rt; head.contains("\r\nContent-Type: application/json\r\n"));
    assert_eq!(rt; found, body);
    Ok(())
}

#[test]
fn events_in_their_order(rt: HostRuntime) -> Result<(), Fail> {
    let mut ring = EventRing::new();
    assert_body(&rt, Page::Events, &[], &ring, "[]\n")?;
    ring.push(1_500_000, false, b"live: publisher 192.0.2.7:5000 opened");
    ring.push(62_000_001, true, b"refused \"x\\y\"");
    assert_body(
        &rt,
        Page::Events,
        &[],
        &ring,
        "[{\"seconds\":1.500000,\"text\":\"live: publisher 192.0.2.7:5000 opened\"},{\"seconds\":62.000001,\"text\":\"refused \\\"x\\\\y\\\"\"}]\n",
    )
}

/// The text of a ring's events, after its head.
fn events_of<R: Abort + AllocGlobal>(rt: &R, ring: &EventRing) -> Result<String, Fail> {
    let request = Request::Page {
        method: Method::Get,
        page: Page::Events,
    };
    let response = respond(rt.alloc(), request, b"", &gateway(), &[], ring)?;
    let Ok(text) = str::from_utf8(response.as_slice()) else {
        panic!(rt; "not UTF-8");
    };
    Ok(String::from_str(rt.alloc(), text)?)
}

#[test]
fn the_oldest_of_51_events_goes(rt: HostRuntime) -> Result<(), Fail> {
    let mut ring = EventRing::new();
    for number in 0..50 {
        ring.push(number * 1_000_000, false, b"x");
    }
    let text = events_of(&rt, &ring)?;
    assert!(rt; text.as_str().contains("\r\n\r\n[{\"seconds\":0.000000,"));
    ring.push(50_000_000, false, b"y");
    let text = events_of(&rt, &ring)?;
    assert!(rt;
        text.as_str().contains(
            "\r\n\r\n[{\"seconds\":1.000000,\"text\":\"x\"},{\"seconds\":2.000000,"
        )
    );
    assert!(rt;
        text.as_str().ends_with(
            "{\"seconds\":49.000000,\"text\":\"x\"},{\"seconds\":50.000000,\"text\":\"y\"}]\n"
        )
    );
    Ok(())
}

#[test]
fn refusals_displace_no_other_event(rt: HostRuntime) -> Result<(), Fail> {
    let mut ring = EventRing::new();
    ring.push(0, false, b"opened");
    for number in 1..1000 {
        ring.push(number * 1_000_000, true, b"refused");
    }
    ring.push(1_000_000_000, false, b"ended");
    let text = events_of(&rt, &ring)?;
    assert!(rt;
        text.as_str().contains(
            "\r\n\r\n[{\"seconds\":0.000000,\"text\":\"opened\"},{\"seconds\":990.000000,\"text\":\"refused\"},{\"seconds\":991.000000,"
        )
    );
    assert!(rt;
        text.as_str().ends_with(
            "{\"seconds\":999.000000,\"text\":\"refused\"},{\"seconds\":1000.000000,\"text\":\"ended\"}]\n"
        )
    );
    Ok(())
}

#[test]
fn a_long_text_is_cut_before_a_character(rt: HostRuntime) -> Result<(), Fail> {
    // 511 times the letter x, and a letter of two bytes in UTF-8
    let mut text = [b'x'; 513];
    text[511] = 0xc3;
    text[512] = 0xa9;
    let mut ring = EventRing::new();
    ring.push(0, false, &text);
    let found = events_of(&rt, &ring)?;
    assert!(rt; found.as_str().ends_with("xxx\"}]\n"));
    assert!(rt; found.as_str().contains("\r\nContent-Length: 544\r\n"));
    Ok(())
}

#[test]
fn the_round_trip_is_that_of_the_active_publisher(rt: HostRuntime) {
    let active = publisher();
    let mut standby = publisher();
    standby.is_active = false;
    assert_eq!(rt; round_trip_in(&[None, Some(active)]), Some(20_345));
    assert_eq!(rt; round_trip_in(&[None, Some(standby)]), None);
    assert_eq!(rt; round_trip_in(&[]), None);
}

/// Counters of this many bytes and lost packets.
fn counted(bytes: u64, lost: u64) -> srt_pub::Counts {
    srt_pub::Counts {
        arrived: 0,
        received: 0,
        bytes,
        delivered: 0,
        late: 0,
        ahead: 0,
        given_up: 0,
        reported_lost: lost,
        naks: 0,
        full_window_acks: 0,
    }
}

/// 56 minutes without an entry.
const UNKNOWN: &str =
    "null,null,null,null,null,null,null,null,null,null,null,null,null,null,null,null,null,null,null,null,null,null,null,null,null,null,null,null,null,null,null,null,null,null,null,null,null,null,null,null,null,null,null,null,null,null,null,null,null,null,null,null,null,null,null,null";

#[test]
fn minutes_of_a_route(rt: HostRuntime) -> Result<(), Fail> {
    let mut history = RouteHistory::new();
    history.note(10_000_000, &counted(7, 0), None);
    history.note(59_999_999, &counted(900, 1), None);
    history.note(60_000_000, &counted(1000, 2), Some(20_000));
    history.note(90_000_000, &counted(5000, 3), Some(99));
    history.note(120_400_000, &counted(5500, 3), Some(21_000));
    history.note(360_000_000, &counted(5501, 9), None);
    history.note(420_000_000, &counted(5501, 9), None);
    let mut live = route(&rt, "live", None, None)?;
    live.history = history;
    let mut body = String::from_str(
        rt.alloc(),
        "{\"minute\":1,\"routes\":[{\"name\":\"live\",\"minutes\":[",
    )?;
    body.push_str(UNKNOWN)?;
    body.push_str(",[0,1000,2,20000],[1,4500,1,21000],[2,1,6,null],[6,0,0,null]]}]}\n")?;
    assert_body(
        &rt,
        Page::History,
        &[live],
        &EventRing::new(),
        body.as_str(),
    )
}

#[test]
fn the_oldest_of_61_minutes_goes(rt: HostRuntime) -> Result<(), Fail> {
    let mut history = RouteHistory::new();
    for number in 0..62 {
        history.note(number * 60_000_000, &counted(number * 10, 0), None);
    }
    let mut live = route(&rt, "live", None, None)?;
    live.history = history;
    let request = Request::Page {
        method: Method::Get,
        page: Page::History,
    };
    let response = respond(
        rt.alloc(),
        request,
        b"",
        &gateway(),
        &[live],
        &EventRing::new(),
    )?;
    let Ok(text) = str::from_utf8(response.as_slice()) else {
        panic!(rt; "not UTF-8");
    };
    assert!(rt; text.contains("\"minutes\":[[1,10,0,null],[2,10,0,null],"));
    assert!(rt; text.ends_with(",[60,10,0,null]]}]}\n"));
    Ok(())
}

#[test]
fn paths_of_what_is_recent(rt: HostRuntime) {
    let get = |page| Some(Request::Page {
        method: Method::Get,
        page,
    });
    assert!(rt; crate::request_in(b"GET /events.json HTTP/1.1\r\n\r\n") == get(Page::Events));
    assert!(rt; crate::request_in(b"GET /history.json?x HTTP/1.1\r\n\r\n") == get(Page::History));
}
