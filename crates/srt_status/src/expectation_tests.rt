//! Routes that are expected to be on air. The expected values were worked out by hand from the rule.

use crate::tests::{gateway, publisher, route};
use crate::{EndCounts, Expectation, expected_if, put_json, put_metrics};
use srt_route::EndCause;
use srt_types::product_limits::MAX_SESSIONS;
use std::test::Fail;

/// A second, in microseconds.
const SECOND: u64 = 1_000_000;

#[test]
fn an_absence_is_told_at_once_and_each_ten_minutes(rt: HostRuntime) {
    let nobody = [None; MAX_SESSIONS];
    let mut expectation = Expectation::new();
    assert!(&rt; expectation.look(&nobody, 5 * SECOND) == Some(0));
    assert!(&rt; expectation.look(&nobody, 6 * SECOND) == None);
    assert!(&rt; expectation.look(&nobody, 605 * SECOND - 1) == None);
    assert!(&rt; expectation.look(&nobody, 605 * SECOND) == Some(10));
    assert!(&rt; expectation.look(&nobody, 1204 * SECOND) == None);
    assert!(&rt; expectation.look(&nobody, 1205 * SECOND) == Some(20));
    assert!(&rt; expectation.look(&nobody, 4000 * SECOND) == Some(60));
    assert!(&rt; expectation.look(&nobody, 4204 * SECOND) == None);
}

#[test]
fn an_active_publisher_ends_an_absence_and_a_standby_does_not(rt: HostRuntime) {
    let mut somebody = [None; MAX_SESSIONS];
    let nobody = somebody;
    let mut standby = publisher();
    standby.is_active = false;
    let mut expectation = Expectation::new();
    somebody[3] = Some(standby);
    assert!(&rt; expectation.look(&somebody, 0) == Some(0));
    somebody[4] = Some(publisher());
    assert!(&rt; expectation.look(&somebody, SECOND) == None);
    assert!(&rt; expectation.look(&nobody, 2 * SECOND) == Some(0));
    assert!(&rt; expectation.look(&nobody, 601 * SECOND) == None);
    assert!(&rt; expectation.look(&nobody, 602 * SECOND) == Some(10));
}

#[test]
fn another_configuration_keeps_an_absence(rt: HostRuntime) -> Result<(), Fail> {
    let nobody = [None; MAX_SESSIONS];
    assert!(&rt; expected_if(false, None) == None);
    let Some(mut expectation) = expected_if(true, None) else {
        return Err(Fail::from("it is expected"));
    };
    assert!(&rt; expectation.look(&nobody, 0) == Some(0));
    let Some(mut same) = expected_if(true, Some(expectation)) else {
        return Err(Fail::from("it is expected"));
    };
    assert!(&rt; same.look(&nobody, SECOND) == None);
    assert!(&rt; expected_if(false, Some(same)) == None);
    Ok(())
}

#[test]
fn the_status_has_how_long_a_route_is_absent(rt: HostRuntime) -> Result<(), Fail> {
    let mut news = route(&rt, "news", None, None)?;
    let mut expectation = Expectation::new();
    let _ = expectation.look(&news.sessions, SECOND);
    let _ = expectation.look(&news.sessions, 78 * SECOND + 5);
    news.expectation = Some(expectation);
    let mut ends = EndCounts::default();
    ends.count(Some(EndCause::Silence));
    ends.count(Some(EndCause::Drained));
    ends.count(None);
    ends.count(Some(EndCause::Silence));
    news.ends = Some(ends);
    let mut routes = Vec::new(rt.alloc());
    routes.push(news)?;
    routes.push(route(&rt, "guest", None, None)?)?;
    let mut text = Vec::new(rt.alloc());
    put_json(&mut text, &gateway(), routes.as_slice())?;
    let json = std::str::from_utf8(text.as_slice())?;
    assert!(&rt; json.contains("\"expected\":1,\"absent_seconds\":77,"));
    assert!(&rt;
        json.contains("\"ends_shutdown\":1,\"ends_drained_too_long\":0,\"ends_silence\":2,")
    );
    assert!(&rt; json.contains("\"ends_unknown\":1"));
    let mut metrics = Vec::new(rt.alloc());
    put_metrics(&mut metrics, &gateway(), routes.as_slice())?;
    let shown = std::str::from_utf8(metrics.as_slice())?;
    assert!(&rt; shown.contains("\nsrtgw_route_expected{route=\"news\"} 1\n"));
    assert!(&rt; shown.contains("\nsrtgw_route_absent_seconds{route=\"news\"} 77\n"));
    assert!(&rt; !shown.contains("srtgw_route_expected{route=\"guest\"}"));
    Ok(())
}
