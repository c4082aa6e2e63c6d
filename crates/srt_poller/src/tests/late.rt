//! Rounds whose numbers pass 2^32, which the rounds of schedules never do. The expected outcomes were worked out from the
//! rules by hand.

use super::datagrams::hidden_refusal;
use super::rounds::{AGAIN, Coming, LATER, MANY_CONCLUSIONS, script};
use super::{ALWAYS, ROUTES, SECRET, Serving, assert_handed, entry, named, scheduled};
use crate::rounds::PollerRounds;
use crate::tables::FixedRoutes;
use crate::{DevicesOf, PollerTask, Report, Unsignalled, WireScript};
use srt_cookie::Secret;
use srt_types::Schedule;
use std::alloc::Global;
use std::process::Abort;
use std::sync::Wait;
use std::test::Fail;

/// The number of the first round: 2^32 - 2. That of the third is 2^32.
const FIRST: u64 = 4_294_967_294;

/// The number of the second round.
const SECOND: u32 = 4_294_967_295;

/// A conclusion comes in each of six rounds.
const SIX_CONCLUSIONS: [Coming; 11] = [
    AGAIN, LATER, AGAIN, LATER, AGAIN, LATER, AGAIN, LATER, AGAIN, LATER, AGAIN,
];

/// Asserts the report of six rounds in which these come, and the number of items that were applied to the routes. The
/// first route has this schedule, and may be hidden at first. Returns the wire.
fn assert_late(
    rt: &(impl AllocGlobal + Wait + Abort),
    first: Schedule,
    is_hidden: bool,
    comings: &[Coming],
    wanted: Report,
    applied: u32,
) -> Result<WireScript, Fail> {
    let alloc = rt.alloc();
    let entries = [entry(alloc, &ROUTES[0])?, entry(alloc, &ROUTES[1])?];
    let shown = Schedule {
        open_round: is_hidden as u32,
        close_round: None,
    };
    let mut names = named(alloc, &entries, shown)?;
    let schedules = [first, ALWAYS];
    let mut routes = scheduled(alloc, schedules)?;
    let mut wire = WireScript::new(alloc, Vec::new(alloc));
    let mut source = Serving::new(rt, &routes.cells, script(alloc, comings)?);
    let secret = Secret::new(SECRET);
    let task = PollerTask {
        rt,
        alloc,
        secret: &secret,
        schedules: &schedules,
        rounds: 6,
        signals: &Unsignalled,
    };
    let mut rounds = PollerRounds::new(alloc, &names, &schedules);
    rounds.next = FIRST;
    let mut table = FixedRoutes {
        ends: &mut routes.ends,
    };
    let made = rounds.make::<_, _, DevicesOf<_, _>, _>(
        &task,
        &mut table,
        &mut names,
        &mut source,
        &mut wire,
    );
    assert_eq!(rt; made, 6);
    assert_eq!(rt; rounds.poller.report(), wanted);
    assert_eq!(rt; source.applied, applied);
    Ok(wire)
}

/// Asserts that the first route, which is hidden and was to open in this round, doesn't open any more.
fn assert_stays_hidden(
    rt: &(impl AllocGlobal + Wait + Abort),
    open_round: u32,
) -> Result<(), Fail> {
    let first = Schedule {
        open_round,
        close_round: None,
    };
    let wanted = Report {
        read: 6,
        answered: 6,
        sent: 6,
        ..Report::NOTHING
    };
    let wire = assert_late(rt, first, true, &SIX_CONCLUSIONS, wanted, 0)?;
    assert_handed(rt, &wire, &[hidden_refusal(1); 6])
}

/// The third round is not round 0, and the sixth not round 3.
#[test]
fn a_round_past_the_last_of_schedules_opens_none(rt: HostRuntime) -> Result<(), Fail> {
    assert_stays_hidden(&rt, 0)?;
    assert_stays_hidden(&rt, 3)
}

/// The first route opens in the second round, and stays open. The conclusion of the sixth round is applied in none.
#[test]
fn a_route_opens_in_the_last_round_of_schedules(rt: HostRuntime) -> Result<(), Fail> {
    let first = Schedule {
        open_round: SECOND,
        close_round: None,
    };
    let wanted = Report {
        read: 6,
        answered: 1,
        accepted: 5,
        sent: 5,
        ..Report::NOTHING
    };
    let _ = assert_late(&rt, first, true, &SIX_CONCLUSIONS, wanted, 4)?;
    Ok(())
}

/// The first route closes in the second round, but 16 conclusions fill its inbox, which is served at the wait of that
/// round. So the conclusion of that round is accepted. In the third round Close is offered again, and accepted.
#[test]
fn a_close_is_offered_again_past_the_last_round_of_schedules(rt: HostRuntime) -> Result<(), Fail> {
    let first = Schedule {
        open_round: 0,
        close_round: Some(SECOND),
    };
    let wanted = Report {
        read: 18,
        answered: 1,
        accepted: 17,
        sent: 19,
        ..Report::NOTHING
    };
    let _ = assert_late(&rt, first, false, &MANY_CONCLUSIONS, wanted, 18)?;
    Ok(())
}
