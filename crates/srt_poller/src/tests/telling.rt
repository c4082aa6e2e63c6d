//! What a poller tells its signals.

use super::asking::{Asking, Reported};
use super::datagrams::{
    CALLER, STUDIO, conclusion_of, hidden_refusal, induction_answer, induction_of,
    publisher_answer, stray_shutdown,
};
use super::{ALWAYS, Serving, comes, pumped_under, scheduled};
use crate::{Order, Sent, SourceStep, WireScript};
use srt_samples::Sample;
use srt_types::Schedule;
use std::alloc::Global;
use std::process::Abort;
use std::sync::Wait;
use std::test::Fail;

/// What is told of this answer to this datagram.
fn reported(alloc: Global, datagram: Sample<'_>, answer: Sample<'_>) -> Result<Reported, Fail> {
    Ok(Reported {
        route: 0,
        datagram: datagram.bytes(alloc)?,
        answer: answer.bytes(alloc)?,
    })
}

/// What is told of this reply of the first route.
fn reported_of_a_reply(alloc: Global, reply: Sample<'_>) -> Result<Reported, Fail> {
    Ok(Reported {
        route: 0,
        datagram: Vec::new(alloc),
        answer: reply.bytes(alloc)?,
    })
}

/// Asserts that six rounds, in which these datagrams come and the sends have these outcomes, tell just these answers and
/// replies. The first route has this schedule. The poller is asked for these.
fn assert_reported(
    rt: &(impl AllocGlobal + Wait + Abort),
    first: Schedule,
    steps: Vec<SourceStep>,
    sends: Vec<Sent>,
    requested: &[Order],
    expected: Vec<Reported>,
) -> Result<(), Fail> {
    let alloc = rt.alloc();
    let schedules = [first, ALWAYS];
    let mut routes = scheduled(alloc, schedules)?;
    let mut wire = WireScript::new(alloc, sends);
    let mut source = Serving::new(rt, &routes.cells, steps);
    let count = expected.len();
    let asking = Asking::new(requested, expected);
    let ends = &mut routes.ends;
    let _ = pumped_under(rt, schedules, ends, &mut source, &mut wire, 6, &asking)?;
    assert_eq!(rt; asking.difference.get(), None);
    assert_eq!(rt; asking.reported.get(), count);
    assert_eq!(rt; asking.right.get(), count);
    Ok(())
}

/// The first route is hidden, so the lobby refuses the conclusion. The first answer is lost, and is told all the same.
#[test]
fn each_answer_of_the_lobby_is_reported(rt: HostRuntime) -> Result<(), Fail> {
    let alloc = rt.alloc();
    let late = Schedule {
        open_round: 9,
        close_round: None,
    };
    let steps = vec![in alloc;
        comes(alloc, induction_of(CALLER))?,
        comes(alloc, stray_shutdown())?,
        comes(alloc, conclusion_of(1, &STUDIO))?,
    ]?;
    let expected = vec![in alloc;
        reported(alloc, induction_of(CALLER), induction_answer(CALLER))?,
        reported(alloc, conclusion_of(1, &STUDIO), hidden_refusal(1))?,
    ]?;
    let sends = vec![in alloc; Sent::Later]?;
    assert_reported(&rt, late, steps, sends, &[], expected)
}

/// In round 2 all routes are closed: the SHUTDOWN of the session is no handshake. The answer to the conclusion is put off
/// once, and told once.
#[test]
fn each_handshake_of_a_route_is_reported(rt: HostRuntime) -> Result<(), Fail> {
    let alloc = rt.alloc();
    let steps = vec![in alloc; comes(alloc, conclusion_of(1, &STUDIO))?]?;
    let expected = vec![in alloc; reported_of_a_reply(alloc, publisher_answer(1))?]?;
    let sends = vec![in alloc; Sent::Later]?;
    let requested = [Order::GoOn, Order::GoOn, Order::CloseAll];
    assert_reported(&rt, ALWAYS, steps, sends, &requested, expected)
}
