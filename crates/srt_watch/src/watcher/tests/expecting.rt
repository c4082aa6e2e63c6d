//! Routes that are expected to be on air: their lines, and what a changed file does to that. The lines were worked out by hand
//! from the rule: one at the first look that finds no encoder, and one each ten minutes after it.

use super::changing::{HEAD, NEWS, STUDIO, config, follower, next_change};
use super::{NOTHING, PUBLISHER, SHUTDOWN, Watching, assert_lines, entry, hear, start, watcher};
use srt_route::Route;
use srt_status::Expectation;
use srt_supervision::{Order, Watch};
use std::test::Fail;

/// A second of the machine, in microseconds.
const SECOND: u64 = 1_000_000;

/// The last key of a route that is to be on air all the time.
const EXPECT: &str = "expect = true\n";

/// The watcher is shown the route with this index, at this number of seconds after the start.
fn look(watcher: &mut Watching<'_>, seconds: u64, index: usize, route: &Route) {
    watcher.machine.moment = seconds.saturating_mul(SECOND);
    watcher.show_route(index, route);
}

/// What the page shows of the route at a place.
fn shown(watcher: &Watching<'_>, place: usize) -> Option<Expectation> {
    match watcher.routes.shown().get(place) {
        Some(status) => status.expectation,
        None => None,
    }
}

#[test]
fn an_expected_route_without_an_encoder_has_lines(rt: HostRuntime) -> Result<(), Fail> {
    let entries = vec![in rt.alloc(); entry(rt.alloc())?]?;
    let mut watcher = watcher(rt.alloc(), &entries, false, start(true, None))?;
    watcher.expect(&[true]);
    assert_lines(&rt, &mut watcher, "");
    let mut route = Route::open(rt.alloc(), &entries[0], 0)?;
    look(&mut watcher, 1, 0, &route);
    assert_lines(&rt, &mut watcher, "studio: expected on air, no encoder\n");
    look(&mut watcher, 2, 0, &route);
    look(&mut watcher, 600, 0, &route);
    assert_lines(&rt, &mut watcher, "");
    look(&mut watcher, 601, 0, &route);
    assert_lines(
        &rt,
        &mut watcher,
        "studio: expected on air, no encoder for 10 minutes\n",
    );
    look(&mut watcher, 1200, 0, &route);
    assert_lines(&rt, &mut watcher, "");
    look(&mut watcher, 1201, 0, &route);
    assert_lines(
        &rt,
        &mut watcher,
        "studio: expected on air, no encoder for 20 minutes\n",
    );
    hear(rt.alloc(), &mut route, 1_000_000, PUBLISHER)?;
    look(&mut watcher, 1202, 0, &route);
    assert_lines(
        &rt,
        &mut watcher,
        "studio: publisher 127.0.0.1:5000 opened, socket 0x00100000, latency 120 ms\n",
    );
    assert!(rt; shown(&watcher, 0) == Some(Expectation::new()));
    look(&mut watcher, 1900, 0, &route);
    assert_lines(&rt, &mut watcher, "");
    hear(rt.alloc(), &mut route, 3_500_000, SHUTDOWN)?;
    look(&mut watcher, 1901, 0, &route);
    assert_lines(
        &rt,
        &mut watcher,
        "studio: publisher 127.0.0.1:5000 ended, socket 0x00100000, its peer sent a SHUTDOWN, after 2500 ms, 0 packets, 0 bytes, 0 lost, 0 resent\nstudio: expected on air, no encoder\n",
    );
    Ok(())
}

#[test]
fn a_route_that_is_not_expected_has_no_line(rt: HostRuntime) -> Result<(), Fail> {
    let entries = vec![in rt.alloc(); entry(rt.alloc())?]?;
    let mut watcher = watcher(rt.alloc(), &entries, false, start(true, None))?;
    let route = Route::open(rt.alloc(), &entries[0], 0)?;
    look(&mut watcher, 1, 0, &route);
    watcher.expect(&[false]);
    look(&mut watcher, 601, 0, &route);
    watcher.expect(&[]);
    look(&mut watcher, 1201, 0, &route);
    assert_lines(&rt, &mut watcher, "");
    assert!(rt; shown(&watcher, 0).is_none());
    Ok(())
}

#[test]
fn nothing_is_expected_while_the_gateway_stops(rt: HostRuntime) -> Result<(), Fail> {
    let entries = vec![in rt.alloc(); entry(rt.alloc())?]?;
    let mut watcher = watcher(rt.alloc(), &entries, false, start(true, None))?;
    watcher.expect(&[true]);
    let route = Route::open(rt.alloc(), &entries[0], 0)?;
    watcher.machine.stops = true;
    watcher.machine.moment = SECOND;
    assert_eq!(rt; watcher.next(NOTHING), Order::CloseAll);
    watcher.changes.log.clear();
    look(&mut watcher, 1, 0, &route);
    look(&mut watcher, 2, 0, &route);
    assert_lines(&rt, &mut watcher, "");
    assert!(rt; shown(&watcher, 0) == Some(Expectation::new()));
    Ok(())
}

#[test]
fn a_change_of_the_key_alone_is_taken_in_place(rt: HostRuntime) -> Result<(), Fail> {
    let config = config(rt.alloc(), &[HEAD, STUDIO, NEWS])?;
    let mut watcher = follower(
        rt.alloc(),
        &config,
        &[
            &[HEAD, STUDIO, NEWS],
            &[HEAD, STUDIO, NEWS, EXPECT],
            &[HEAD, STUDIO, EXPECT, NEWS],
            &[HEAD, NEWS, STUDIO, EXPECT],
        ],
    )?;
    watcher.expect(config.expected.as_slice());
    let studio = Route::open(rt.alloc(), &config.entries[0], 0)?;
    let news = Route::open(rt.alloc(), &config.entries[1], 1)?;
    assert!(rt; next_change(&mut watcher, Ok(9)).is_none());
    watcher.show_route(0, &studio);
    watcher.show_route(1, &news);
    assert_lines(&rt, &mut watcher, "");
    assert!(rt; next_change(&mut watcher, Ok(9)).is_none());
    assert_lines(&rt, &mut watcher, "");
    watcher.show_route(0, &studio);
    watcher.show_route(1, &news);
    assert_lines(&rt, &mut watcher, "news: expected on air, no encoder\n");
    assert!(rt; shown(&watcher, 0).is_none());
    assert!(rt; next_change(&mut watcher, Ok(9)).is_none());
    watcher.show_route(0, &studio);
    watcher.show_route(1, &news);
    assert_lines(&rt, &mut watcher, "studio: expected on air, no encoder\n");
    assert!(rt; shown(&watcher, 1).is_none());
    let absent = shown(&watcher, 0);
    assert!(rt; next_change(&mut watcher, Ok(9)).is_none());
    assert!(rt; shown(&watcher, 1) == absent);
    assert!(rt; shown(&watcher, 0).is_none());
    watcher.show_route(0, &studio);
    watcher.show_route(1, &news);
    assert_lines(&rt, &mut watcher, "");
    Ok(())
}
