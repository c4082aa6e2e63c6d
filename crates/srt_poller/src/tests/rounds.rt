//! Routes that open and close in later rounds. The expected outcomes were worked out from the rules by hand.

use super::datagrams::{
    STUDIO, conclusion_of, files_answer, files_conclusion, hidden_refusal, publisher_answer,
    publisher_data, shutdown_of, stray_shutdown,
};
use super::{ALWAYS, Serving, assert_handed, peer, pumped, scheduled};
use crate::{Report, ScriptDatagram, SourceStep, WireScript};
use srt_samples::Sample;
use srt_types::Schedule;
use std::alloc::Global;
use std::process::Abort;
use std::sync::Wait;
use std::test::Fail;

/// A datagram that comes.
#[derive(Clone, Copy)]
pub enum Datagram {
    /// The first caller's CONCLUSION, for the first route.
    Conclusion,
    /// The second caller's, for the second route.
    FilesConclusion,
    /// A SHUTDOWN to no route.
    Stray,
    /// A data packet to the first session of the first route.
    Data,
}

impl Datagram {
    fn sample<'a>(self) -> Sample<'a> {
        match self {
            Datagram::Conclusion => conclusion_of(1, &STUDIO),
            Datagram::FilesConclusion => files_conclusion(),
            Datagram::Stray => stray_shutdown(),
            Datagram::Data => publisher_data(),
        }
    }
}

/// What comes, with its moment in microseconds; `None` if nothing more comes in this round.
pub type Coming = Option<(Datagram, u64)>;

/// A conclusion comes.
pub const AGAIN: Coming = Some((Datagram::Conclusion, 1_000_000));

/// The rest comes in later rounds.
pub const LATER: Coming = None;

/// A conclusion comes in the rounds 0, 1, 2 and 4, and at the end a data packet. In round 3 come two stray datagrams, of
/// which the first has the greatest moment of all.
pub const FOUR_CONCLUSIONS: [Coming; 11] = [
    AGAIN,
    LATER,
    AGAIN,
    LATER,
    AGAIN,
    LATER,
    Some((Datagram::Stray, 1_500_000)),
    Some((Datagram::Stray, 1_000_000)),
    LATER,
    AGAIN,
    Some((Datagram::Data, 1_000_000)),
];

/// In round 0 come 16 conclusions, and one each in the rounds 1 and 2.
pub const MANY_CONCLUSIONS: [Coming; 20] = [
    AGAIN, AGAIN, AGAIN, AGAIN, AGAIN, AGAIN, AGAIN, AGAIN, AGAIN, AGAIN, AGAIN, AGAIN, AGAIN,
    AGAIN, AGAIN, AGAIN, LATER, AGAIN, LATER, AGAIN,
];

/// In round 0 come 16 conclusions, and one each in the rounds 1 to 5.
const STILL_MORE_CONCLUSIONS: [Coming; 26] = [
    AGAIN, AGAIN, AGAIN, AGAIN, AGAIN, AGAIN, AGAIN, AGAIN, AGAIN, AGAIN, AGAIN, AGAIN, AGAIN,
    AGAIN, AGAIN, AGAIN, LATER, AGAIN, LATER, AGAIN, LATER, AGAIN, LATER, AGAIN, LATER, AGAIN,
];

/// A conclusion comes in round 2, and nothing before.
const LATE_CONCLUSION: [Coming; 3] = [LATER, LATER, AGAIN];

/// A conclusion for each route comes in round 0, and again in round 2. In round 1 comes a stray datagram.
pub const BOTH_CONCLUSIONS: [Coming; 7] = [
    AGAIN,
    Some((Datagram::FilesConclusion, 1_000_000)),
    LATER,
    Some((Datagram::Stray, 1_500_000)),
    LATER,
    Some((Datagram::Conclusion, 1_500_000)),
    Some((Datagram::FilesConclusion, 1_500_000)),
];

/// What is sent if both routes close in round 2 and these come.
pub fn both_ended<'a>() -> [Sample<'a>; 6] {
    [
        publisher_answer(1),
        files_answer(2),
        hidden_refusal(1),
        hidden_refusal(2),
        shutdown_of(1),
        shutdown_of(2),
    ]
}

fn step(alloc: Global, coming: Coming) -> Result<SourceStep, Fail> {
    match coming {
        None => Ok(SourceStep::Empty),
        Some((datagram, moment)) => Ok(SourceStep::Datagram(ScriptDatagram {
            peer: peer(5000),
            bytes: datagram.sample().bytes(alloc)?,
            moment,
        })),
    }
}

pub fn script(alloc: Global, comings: &[Coming]) -> Result<Vec<SourceStep>, Fail> {
    let mut steps = Vec::new(alloc);
    for coming in comings {
        steps.push(step(alloc, *coming)?)?;
    }
    Ok(steps)
}

/// Six rounds.
#[derive(Clone, Copy)]
struct Play<'a> {
    schedules: [Schedule; 2],
    /// What comes in them.
    comings: &'a [Coming],
    /// The number of waits before the first at which the routes are served.
    idle: u32,
}

/// A play in which the first route has this schedule, the second is always open, and they are served at each wait.
fn with_first(schedule: Schedule, comings: &[Coming]) -> Play {
    Play {
        schedules: [schedule, ALWAYS],
        comings,
        idle: 0,
    }
}

/// Asserts the report of six rounds, and the number of items that were applied to the routes. Returns the wire.
fn assert_played(
    rt: &(impl AllocGlobal + Wait + Abort),
    play: Play,
    wanted: Report,
    applied: u32,
) -> Result<WireScript, Fail> {
    let alloc = rt.alloc();
    let mut routes = scheduled(alloc, play.schedules)?;
    let mut wire = WireScript::new(alloc, Vec::new(alloc));
    let mut source = Serving::new(rt, &routes.cells, script(alloc, play.comings)?);
    source.idle = play.idle;
    let report = pumped(
        rt,
        play.schedules,
        &mut routes.ends,
        &mut source,
        &mut wire,
        6,
    )?;
    assert_eq!(rt; report, wanted);
    assert_eq!(rt; source.applied, applied);
    Ok(wire)
}

/// The first route opens in round 2 and closes in round 4. Its SHUTDOWN has the greatest moment that came.
#[test]
fn a_route_takes_datagrams_from_its_first_round_to_its_last(rt: HostRuntime) -> Result<(), Fail> {
    let schedule = Schedule {
        open_round: 2,
        close_round: Some(4),
    };
    let wanted = Report {
        read: 7,
        answered: 3,
        accepted: 1,
        dropped: 3,
        sent: 5,
        ..Report::NOTHING
    };
    let wire = assert_played(&rt, with_first(schedule, &FOUR_CONCLUSIONS), wanted, 2)?;
    assert_handed(
        &rt,
        &wire,
        &[
            hidden_refusal(1),
            hidden_refusal(1),
            publisher_answer(1),
            hidden_refusal(1),
            shutdown_of(1),
        ],
    )
}

/// The first route closes in round 1, but 16 conclusions fill its inbox, which is first served at the wait of that
/// round. So the conclusion of round 1 is accepted, and that of round 2 is not. Close is applied once.
#[test]
fn a_route_whose_inbox_is_full_closes_a_round_later_and_once(rt: HostRuntime) -> Result<(), Fail> {
    let schedule = Schedule {
        open_round: 0,
        close_round: Some(1),
    };
    let wanted = Report {
        read: 18,
        answered: 1,
        accepted: 17,
        sent: 19,
        ..Report::NOTHING
    };
    let _ = assert_played(&rt, with_first(schedule, &MANY_CONCLUSIONS), wanted, 18)?;
    Ok(())
}

/// The first route closes in round 1, before any datagram came: its Close has moment 0, and is applied at the wait of that
/// round. So it is hidden from the conclusion of round 2.
#[test]
fn a_route_closes_though_nothing_came_before(rt: HostRuntime) -> Result<(), Fail> {
    let schedule = Schedule {
        open_round: 0,
        close_round: Some(1),
    };
    let wanted = Report {
        read: 1,
        answered: 1,
        sent: 1,
        ..Report::NOTHING
    };
    let wire = assert_played(&rt, with_first(schedule, &LATE_CONCLUSION), wanted, 1)?;
    assert_handed(&rt, &wire, &[hidden_refusal(1)])
}

/// Both routes close in round 2: each session gets its SHUTDOWN, and both are hidden from the conclusions of that round.
#[test]
fn two_routes_close_in_one_round(rt: HostRuntime) -> Result<(), Fail> {
    let brief = Schedule {
        open_round: 0,
        close_round: Some(2),
    };
    let play = Play {
        schedules: [brief; 2],
        comings: &BOTH_CONCLUSIONS,
        idle: 0,
    };
    let wanted = Report {
        read: 5,
        answered: 2,
        accepted: 2,
        dropped: 1,
        sent: 6,
        ..Report::NOTHING
    };
    let wire = assert_played(&rt, play, wanted, 4)?;
    assert_handed(&rt, &wire, &both_ended())
}

/// The first route closes in round 1, but 16 conclusions fill its inbox, which is first served at the wait of round 4.
/// Its Close meets a full inbox in the rounds 1 to 3 and at the beginning of round 4, as do the conclusions of the rounds
/// 1 to 3. That of round 4 is accepted, and then Close, in round 5. Both are applied at the wait of that round.
#[test]
fn a_close_is_offered_in_each_round_until_its_inbox_accepts_it(
    rt: HostRuntime,
) -> Result<(), Fail> {
    let first = Schedule {
        open_round: 0,
        close_round: Some(1),
    };
    let play = Play {
        schedules: [first, ALWAYS],
        comings: &STILL_MORE_CONCLUSIONS,
        idle: 4,
    };
    let wanted = Report {
        read: 21,
        answered: 1,
        accepted: 17,
        full: 3,
        sent: 19,
        ..Report::NOTHING
    };
    let _ = assert_played(&rt, play, wanted, 18)?;
    Ok(())
}
