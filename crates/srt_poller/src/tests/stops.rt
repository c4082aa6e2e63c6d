//! Rounds that end early, and rounds that close all routes. The expected outcomes were worked out from the rules by hand.

ghost use Rattle.std.specs.Prelude.{◌≤◌, ◌^◌};

use super::asking::Asking;
use super::datagrams::{STUDIO, conclusion_of, hidden_refusal};
use super::rounds::{
    BOTH_CONCLUSIONS, Coming, FOUR_CONCLUSIONS, MANY_CONCLUSIONS, both_ended, script,
};
use super::{ALWAYS, Serving, assert_handed, comes, open_routes, pumped_under, scheduled};
use crate::{Order, Pumping, Report, SourceScript, SourceStep, WireScript};
use srt_types::Schedule;
use std::alloc::Global;
use std::process::Abort;
use std::sync::Wait;
use std::test::Fail;

/// Order in each of the first rounds.
const ON: Order = Order::GoOn;

const CLOSE: Order = Order::CloseAll;

const END: Order = Order::End;

/// What the poller did in at most this many rounds, three of which would each read a conclusion, under these signals.
fn pumped_within(
    rt: &(impl AllocGlobal + Wait),
    rounds: u64,
    asking: &Asking<'_>,
) -> Result<Pumping, Fail>
    requires { rounds ≤ 2 ^ 48 }
{
    let alloc = rt.alloc();
    let mut routes = open_routes(alloc)?;
    let mut steps = Vec::new(alloc);
    for _ in 0..3 {
        steps.push(SourceStep::Wait)?;
        steps.push(comes(alloc, conclusion_of(1, &STUDIO))?)?;
        steps.push(SourceStep::Empty)?;
    }
    let mut source = SourceScript::new(steps);
    let mut wire = WireScript::new(alloc, Vec::new(alloc));
    let ends = &mut routes.ends;
    pumped_under(
        rt,
        [ALWAYS; 2],
        ends,
        &mut source,
        &mut wire,
        rounds,
        asking,
    )
}

/// Asserts that just this many of at most that many rounds are made if the poller is asked for these, and that each
/// reads a conclusion, which its route accepts.
fn assert_made(
    rt: &(impl AllocGlobal + Wait + Abort),
    rounds: u64,
    requested: &[Order],
    made: u64,
) -> Result<(), Fail>
    requires { rounds ≤ 2 ^ 48 }
{
    let pumping = pumped_within(rt, rounds, &Asking::of(rt.alloc(), requested))?;
    assert_eq!(rt; pumping.rounds, made);
    assert_eq!(rt;
        pumping.report,
        Report {
            read: made,
            accepted: made,
            ..Report::NOTHING
        }
    );
    Ok(())
}

#[test]
fn rounds_end_once_the_signals_say_so(rt: HostRuntime) -> Result<(), Fail> {
    assert_made(&rt, 9, &[END], 0)?;
    assert_made(&rt, 9, &[ON, ON, END], 2)?;
    assert_made(&rt, 3, &[ON, ON, ON, END], 3)?;
    assert_made(&rt, 2, &[], 2)
}

/// Asserts that the counts are told so often in at most this many rounds, and the last time with this many datagrams.
fn assert_counts_reported(
    rt: &(impl AllocGlobal + Wait + Abort),
    rounds: u64,
    requested: &[Order],
    reports: u64,
    read: u64,
) -> Result<(), Fail>
    requires { rounds ≤ 2 ^ 48 }
{
    let asking = Asking::of(rt.alloc(), requested);
    let _ = pumped_within(rt, rounds, &asking)?;
    assert_eq!(rt; asking.reports.get(), reports);
    assert_eq!(rt;
        asking.counts.get(),
        Report {
            read,
            accepted: read,
            ..Report::NOTHING
        }
    );
    Ok(())
}

/// A round that isn't made has its counts told too.
#[test]
fn the_counts_are_reported_before_each_round(rt: HostRuntime) -> Result<(), Fail> {
    assert_counts_reported(&rt, 9, &[END], 1, 0)?;
    assert_counts_reported(&rt, 9, &[ON, ON, END], 3, 2)?;
    assert_counts_reported(&rt, 3, &[], 3, 2)
}

/// All routes are closed in the second round: its conclusion is answered by the lobby, and no third one is made.
#[test]
fn rounds_end_after_one_that_closes_all(rt: HostRuntime) -> Result<(), Fail> {
    let asking = Asking::of(rt.alloc(), &[ON, CLOSE, END]);
    let pumping = pumped_within(&rt, 9, &asking)?;
    assert_eq!(&rt; pumping.rounds, 2);
    assert_eq!(&rt;
        pumping.report,
        Report {
            read: 2,
            answered: 1,
            accepted: 1,
            sent: 1,
            ..Report::NOTHING
        }
    );
    Ok(())
}

/// Asserts the report of six rounds in which these come and the poller is asked for these, and the number of items that
/// were applied to the routes, of which the first has this schedule. Returns the wire.
fn assert_requested(
    rt: &(impl AllocGlobal + Wait + Abort),
    first: Schedule,
    comings: &[Coming],
    requested: &[Order],
    wanted: Report,
    applied: u32,
) -> Result<WireScript, Fail> {
    let alloc = rt.alloc();
    let schedules = [first, ALWAYS];
    let mut routes = scheduled(alloc, schedules)?;
    let mut wire = WireScript::new(alloc, Vec::new(alloc));
    let mut source = Serving::new(rt, &routes.cells, script(alloc, comings)?);
    let asking = Asking::of(alloc, requested);
    let ends = &mut routes.ends;
    let pumping = pumped_under(rt, schedules, ends, &mut source, &mut wire, 6, &asking)?;
    assert_eq!(rt; pumping.rounds, 6);
    assert_eq!(rt; pumping.report, wanted);
    assert_eq!(rt; source.applied, applied);
    Ok(wire)
}

/// In round 2 all are closed: each session gets its SHUTDOWN, and both routes are hidden from the conclusions of that
/// round, as if each had closed in it by its schedule. In the rounds 3 to 5 no route is shown, and none is offered Close.
#[test]
fn a_round_that_closes_all_closes_each_shown_route(rt: HostRuntime) -> Result<(), Fail> {
    let wanted = Report {
        read: 5,
        answered: 2,
        accepted: 2,
        dropped: 1,
        sent: 6,
        ..Report::NOTHING
    };
    let requested = [ON, ON, CLOSE, CLOSE, CLOSE, CLOSE];
    let wire = assert_requested(&rt, ALWAYS, &BOTH_CONCLUSIONS, &requested, wanted, 4)?;
    assert_handed(&rt, &wire, &both_ended())
}

/// In round 1 all are closed, but 16 conclusions fill the inbox of the first route, which is first served at the wait of
/// that round. So the conclusion of round 1 is accepted. In round 2 the first route is offered Close again, and accepts
/// it. The second route is offered it once.
#[test]
fn a_route_whose_inbox_is_full_is_closed_in_the_next_round(rt: HostRuntime) -> Result<(), Fail> {
    let wanted = Report {
        read: 18,
        answered: 1,
        accepted: 17,
        sent: 19,
        ..Report::NOTHING
    };
    let requested = [ON, CLOSE, CLOSE, CLOSE];
    let _ = assert_requested(&rt, ALWAYS, &MANY_CONCLUSIONS, &requested, wanted, 19)?;
    Ok(())
}

/// The same, but in round 2 the poller is asked to go on: the first route isn't offered Close again.
#[test]
fn a_route_stays_open_if_its_inbox_was_full_and_no_more_is_asked(
    rt: HostRuntime,
) -> Result<(), Fail> {
    let wanted = Report {
        read: 18,
        accepted: 18,
        sent: 18,
        ..Report::NOTHING
    };
    let _ = assert_requested(&rt, ALWAYS, &MANY_CONCLUSIONS, &[ON, CLOSE], wanted, 19)?;
    Ok(())
}

/// The first route would open in round 2, but in the rounds 1 to 3 all are closed: it isn't shown, and gets no Close. The
/// second route gets one.
#[test]
fn a_round_that_closes_all_opens_none_and_offers_none_to_a_hidden_route(
    rt: HostRuntime,
) -> Result<(), Fail> {
    let late = Schedule {
        open_round: 2,
        close_round: None,
    };
    let wanted = Report {
        read: 7,
        answered: 4,
        dropped: 3,
        sent: 4,
        ..Report::NOTHING
    };
    let requested = [ON, CLOSE, CLOSE, CLOSE];
    let wire = assert_requested(&rt, late, &FOUR_CONCLUSIONS, &requested, wanted, 1)?;
    assert_handed(&rt, &wire, &[hidden_refusal(1); 4])
}
