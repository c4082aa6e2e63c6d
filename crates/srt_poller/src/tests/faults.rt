//! One call of a device fails or is put off, at each place of a script of several rounds in turn. The expected outcomes
//! were worked out by hand. A failed wait or read loses nothing: what was to be read is read a round later. A failed
//! send loses that datagram alone. A send that returns Later loses an answer, and delays a reply by a round.

use super::asking::Asking;
use super::datagrams::{STUDIO, conclusion_of, induction_answer, induction_of, stray_shutdown};
use super::{ALWAYS, Serving, comes, open_routes, pumped_under, reply_to};
use crate::{Report, Sent, Source, SourceStep, Wire, WireScript};
use srt_samples::Sample;
use std::alloc::Global;
use std::process::Abort;
use std::sync::Wait;
use std::test::Fail;

/// The socket ID in the first round's INDUCTION. Those of the next two rounds follow.
const FIRST_CALLER: u32 = 0xbc_6101;

/// Which call fails or returns Later, counted from 0.
#[derive(Clone, Copy, PartialEq)]
enum Fault {
    Nothing,
    Wait(u32),
    Read(u32),
    Send(u32),
    Later(u32),
}

/// The outcome of the rounds: the report, the failures of the source and of the wire, and the datagrams that were not
/// put off, in order, as decimal digits: 1 to 3 are the answers to the inductions, 4 to 6 the replies to the
/// conclusions.
#[derive(Drop)]
struct Outcome {
    report: Report,
    /// How often a failure was told.
    reported: u64,
    source: u64,
    wire: u64,
    handed: u32,
}

/// Three rounds: in each a wait, and four reads that give three datagrams. What a failed call would have given, a later
/// one gives.
fn script(alloc: Global, fault: Fault) -> Result<Vec<SourceStep>, Fail> {
    let mut steps = Vec::new(alloc);
    let mut reads = 0u32;
    for round in 0..3u32 {
        steps.push(if fault == Fault::Wait(round) {
            SourceStep::WaitFails
        } else {
            SourceStep::Wait
        })?;
        for sample in [
            stray_shutdown(),
            induction_of(FIRST_CALLER + round),
            conclusion_of(1 + round, &STUDIO),
        ] {
            if fault == Fault::Read(reads) {
                steps.push(SourceStep::ReadFails)?;
            }
            steps.push(comes(alloc, sample)?)?;
            reads = reads.wrapping_add(1);
        }
        steps.push(if fault == Fault::Read(reads) {
            SourceStep::ReadFails
        } else {
            SourceStep::Empty
        })?;
        reads = reads.wrapping_add(1);
    }
    Ok(steps)
}

/// The outcome of each send.
fn answers(alloc: Global, fault: Fault) -> Result<Vec<Sent>, Fail> {
    let mut answers = Vec::new(alloc);
    for send in 0..6u32 {
        answers.push(if fault == Fault::Send(send) {
            Sent::Failed
        } else if fault == Fault::Later(send) {
            Sent::Later
        } else {
            Sent::Taken
        })?;
    }
    Ok(answers)
}

/// The datagrams that can be sent, in the order of their digits.
fn all_sent<'a>() -> [Sample<'a>; 6] {
    [
        induction_answer(FIRST_CALLER),
        induction_answer(FIRST_CALLER + 1),
        induction_answer(FIRST_CALLER + 2),
        reply_to(1),
        reply_to(2),
        reply_to(3),
    ]
}

/// The digit of a datagram that was sent; 9 if it is none of the six.
fn digit(alloc: Global, bytes: &Vec<u8>) -> Result<u32, Fail> {
    let mut digit = 1u32;
    for sample in all_sent() {
        if *bytes == sample.bytes(alloc)? {
            return Ok(digit);
        }
        digit = digit.wrapping_add(1);
    }
    Ok(9)
}

/// The outcome of six rounds, in which the first route is served at each wait.
fn played(rt: &(impl AllocGlobal + Wait), fault: Fault) -> Result<Outcome, Fail> {
    let alloc = rt.alloc();
    let mut routes = open_routes(alloc)?;
    let mut wire = WireScript::new(alloc, answers(alloc, fault)?);
    let mut source = Serving::new(rt, &routes.cells, script(alloc, fault)?);
    let asking = Asking::of(alloc, &[]);
    let ends = &mut routes.ends;
    let pumping = pumped_under(rt, [ALWAYS; 2], ends, &mut source, &mut wire, 6, &asking)?;
    let mut handed = 0u32;
    for sent in wire.handed() {
        handed = handed
            .wrapping_mul(10)
            .wrapping_add(digit(alloc, &sent.bytes)?);
    }
    Ok(Outcome {
        report: pumping.report,
        reported: asking.failed.get(),
        source: source.failures(),
        wire: wire.failures(),
        handed,
    })
}

/// The expected outcome, with this order of the datagrams.
fn wanted(fault: Fault, handed: u32) -> Outcome {
    let all = Report {
        read: 9,
        answered: 3,
        accepted: 3,
        dropped: 3,
        sent: 6,
        ..Report::NOTHING
    };
    let fails = Report { faults: 1, ..all };
    let loses = Report {
        sent: 5,
        lost: 1,
        ..all
    };
    let (report, source, wire) = match fault {
        Fault::Nothing => (all, 0, 0),
        Fault::Wait(_) | Fault::Read(_) => (fails, 1, 0),
        Fault::Send(_) => (Report { faults: 1, ..loses }, 0, 1),
        Fault::Later(_) => (if handed < 100_000 { loses } else { all }, 0, 0),
    };
    Outcome {
        report,
        reported: report.faults,
        source,
        wire,
        handed,
    }
}

/// Asserts the outcome of the rounds with this fault.
fn assert_played(
    rt: &(impl AllocGlobal + Wait + Abort),
    fault: Fault,
    handed: u32,
) -> Result<(), Fail> {
    let found = played(rt, fault)?;
    let expected = wanted(fault, handed);
    assert_eq!(rt; found.report, expected.report);
    assert_eq!(rt; found.reported, expected.reported);
    assert_eq!(rt; found.source, expected.source);
    assert_eq!(rt; found.wire, expected.wire);
    assert_eq!(rt; found.handed, expected.handed);
    Ok(())
}

/// Each fault, with the expected order of the datagrams.
const FAULTS: [(Fault, u32); 28] = [
    (Fault::Nothing, 124356),
    (Fault::Wait(0), 124356),
    (Fault::Wait(1), 142356),
    (Fault::Wait(2), 124536),
    (Fault::Read(0), 124356),
    (Fault::Read(1), 124356),
    (Fault::Read(2), 124356),
    (Fault::Read(3), 124356),
    (Fault::Read(4), 142356),
    (Fault::Read(5), 142356),
    (Fault::Read(6), 124356),
    (Fault::Read(7), 124356),
    (Fault::Read(8), 124536),
    (Fault::Read(9), 124536),
    (Fault::Read(10), 124356),
    (Fault::Read(11), 124356),
    (Fault::Send(0), 124356),
    (Fault::Send(1), 124356),
    (Fault::Send(2), 124356),
    (Fault::Send(3), 124356),
    (Fault::Send(4), 124356),
    (Fault::Send(5), 124356),
    (Fault::Later(0), 24356),
    (Fault::Later(1), 14356),
    (Fault::Later(2), 124356),
    (Fault::Later(3), 12456),
    (Fault::Later(4), 124356),
    (Fault::Later(5), 124356),
];

/// In a round the answers go before the replies. A conclusion is served at the wait after it came, so its reply goes
/// out in the round after, behind that round's answer; if that answer is late, the reply goes before it.
#[test]
fn one_failed_call_at_each_place_loses_at_most_its_datagram(rt: HostRuntime) -> Result<(), Fail> {
    for (fault, handed) in &FAULTS {
        assert_played(&rt, *fault, *handed)?;
    }
    Ok(())
}
