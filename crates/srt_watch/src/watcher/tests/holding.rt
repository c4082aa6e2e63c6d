//! A changed configuration that would close a route with sessions: it is taken if its file is the same five seconds later.

use super::changing::{HEAD, NEWS, STUDIO, assert_requests, config, follower, next_change};
use super::{PUBLISHER, SHUTDOWN, Watching, assert_lines, hear};
use srt_config::Config;
use srt_route::Route;
use srt_supervision::Watch;
use std::alloc::Global;
use std::process::Abort;
use std::test::Fail;

const HELD: &str =
    "configuration closes studio, which has sessions; it is taken if it stays so for 5 s\n";

/// The file with the routes `studio` and `news`, and with the second one alone.
const BOTH: &[&str] = &[HEAD, STUDIO, NEWS];

const NEWS_ALONE: &[&str] = &[HEAD, NEWS];

/// Returns the first route of a configuration, in which a publisher's session is open.
fn used_route(alloc: Global, config: &Config) -> Result<Route, Fail> {
    let Some(entry) = config.entries.first() else {
        return Err(Fail::from("a route"));
    };
    let mut route = Route::open(alloc, entry, 0)?;
    hear(alloc, &mut route, 100_000, PUBLISHER)?;
    Ok(route)
}

/// Asserts that nothing is requested at the next polls of the file, and nothing logged.
fn assert_still(rt: &impl Abort, watcher: &mut Watching<'_>, changes: u32) {
    for _ in 0..changes {
        assert!(rt; next_change(watcher, Ok(2)).is_none());
        assert_lines(rt, watcher, "");
    }
}

#[test]
fn a_route_with_sessions_closes_five_seconds_later(rt: HostRuntime) -> Result<(), Fail> {
    let config = config(rt.alloc(), &[HEAD, STUDIO, NEWS])?;
    let mut watcher = follower(
        rt.alloc(),
        &config,
        &[
            BOTH, NEWS_ALONE, NEWS_ALONE, NEWS_ALONE, NEWS_ALONE, NEWS_ALONE, NEWS_ALONE,
        ],
    )?;
    let route = used_route(rt.alloc(), &config)?;
    watcher.show_route(0, &route);
    watcher.changes.log.clear();
    assert_still(&rt, &mut watcher, 1);
    assert!(rt; next_change(&mut watcher, Ok(2)).is_none());
    assert_lines(&rt, &mut watcher, HELD);
    assert_still(&rt, &mut watcher, 4);
    let change = next_change(&mut watcher, Ok(2));
    assert_requests(&rt, change, &[0], 0, "")?;
    assert_lines(
        &rt,
        &mut watcher,
        "configuration changed: 1 routes stay, 0 open, 1 close, 0 change\nstudio: closed, it is no longer in the configuration\n",
    );
    Ok(())
}

#[test]
fn a_writer_that_pauses_closes_nothing(rt: HostRuntime) -> Result<(), Fail> {
    let config = config(rt.alloc(), &[HEAD, STUDIO, NEWS])?;
    let mut watcher = follower(
        rt.alloc(),
        &config,
        &[
            NEWS_ALONE, BOTH, BOTH, BOTH, BOTH, BOTH, BOTH, NEWS_ALONE, NEWS_ALONE,
        ],
    )?;
    let route = used_route(rt.alloc(), &config)?;
    watcher.show_route(0, &route);
    watcher.changes.log.clear();
    assert!(rt; next_change(&mut watcher, Ok(2)).is_none());
    assert_lines(&rt, &mut watcher, HELD);
    assert_still(&rt, &mut watcher, 6);
    assert!(rt; next_change(&mut watcher, Ok(2)).is_none());
    assert_lines(&rt, &mut watcher, HELD);
    assert_still(&rt, &mut watcher, 1);
    Ok(())
}

#[test]
fn a_route_whose_sessions_have_ended_closes_at_once(rt: HostRuntime) -> Result<(), Fail> {
    let config = config(rt.alloc(), &[HEAD, STUDIO, NEWS])?;
    let mut watcher = follower(rt.alloc(), &config, &[&[HEAD, NEWS]])?;
    let mut route = used_route(rt.alloc(), &config)?;
    watcher.show_route(0, &route);
    hear(rt.alloc(), &mut route, 200_000, SHUTDOWN)?;
    watcher.show_route(0, &route);
    watcher.changes.log.clear();
    let change = next_change(&mut watcher, Ok(2));
    assert_requests(&rt, change, &[0], 0, "")
}
