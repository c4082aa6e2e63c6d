//! Rounds in which no outbox has a hint. The expected outcomes were worked out from the rules by hand.

ghost use Rattle.std.specs.Prelude.{◌≤◌, ◌^◌};

use super::datagrams::{STUDIO, conclusion_of};
use super::{
    ALWAYS, Routes, Serving, assert_replies, comes, conclude, open_routes, pumped_under,
    with_places, with_replies,
};
use crate::{
    Ends, Hints, InlineService, Order, Orders, PollerObserver, Report, Sent, Signals, Source,
    SourceScript, WireScript,
};
use srt_lobby::Names;
use srt_types::Peer;
use std::alloc::Global;
use std::process::Abort;
use std::sync::Wait;
use std::test::Fail;

/// Hints that never say that an outbox has a reply.
struct Silent;

impl Orders for Silent {
    ghost goes = { λ s. Unit {0} };

    ghost closes = { λ s. ⊥ };

    ghost stops = { λ s. ⊥ };

    fn order(&self) -> Order {
        Order::GoOn
    }
}

impl Hints for Silent {
    fn polled(&self, _route: usize) {}

    fn take_outbox_ready(&self, _route: usize) -> bool {
        false
    }

    fn next_outbox_ready(&self, _route: usize) -> usize {
        usize::MAX
    }
}

impl PollerObserver for Silent {
    fn reported(&self, _report: &Report) {}

    fn answered(&self, _names: &Names, _peer: Peer, _datagram: &[u8], _answer: &[u8]) {}

    fn replied(&self, _route: usize, _peer: Peer, _handshake: &[u8]) {}

    fn failed(&self) {}
}

impl InlineService for Silent {
    fn serve_inline(&self, _datagrams: u32) {}
}

impl Signals for Silent {}

/// The number of datagrams that this many rounds without hints send.
fn sent<S: Source>(
    rt: &(impl AllocGlobal + Wait),
    ends: &mut [Ends; 2],
    source: &mut S,
    wire: &mut WireScript,
    rounds: u64,
) -> Result<u64, Fail>
    requires { rounds ≤ 2 ^ 48 }
{
    let pumping = pumped_under(rt, [ALWAYS; 2], ends, source, wire, rounds, &Silent)?;
    Ok(pumping.report.sent)
}

/// The first round looks at all outboxes, and leaves that of the first route after 64 of its 70 replies.
#[test]
fn an_outbox_that_was_left_is_looked_at_in_the_next_round(rt: HostRuntime) -> Result<(), Fail> {
    let alloc = rt.alloc();
    let mut routes = with_places(alloc, [ALWAYS; 2], 128)?;
    conclude(&rt, &mut routes, &[(STUDIO, 70)])?;
    let mut source = SourceScript::new(Vec::new(alloc));
    let mut wire = WireScript::new(alloc, Vec::new(alloc));
    let count = sent(&rt, &mut routes.ends, &mut source, &mut wire, 2)?;
    assert_eq!(&rt; count, 70);
    assert_replies(&rt, &wire, 70)
}

/// Its first reply is put off for three rounds.
#[test]
fn an_outbox_whose_reply_was_put_off_is_looked_at_later(rt: HostRuntime) -> Result<(), Fail> {
    let alloc = rt.alloc();
    let mut routes = with_replies(&rt, 3)?;
    let mut source = SourceScript::new(Vec::new(alloc));
    let mut wire = WireScript::new(alloc, vec![in alloc; Sent::Later; 3]?);
    let count = sent(&rt, &mut routes.ends, &mut source, &mut wire, 4)?;
    assert_eq!(&rt; count, 3);
    assert_replies(&rt, &wire, 3)
}

/// The number of datagrams that this many rounds send, if a conclusion comes in the first one and its reply is in the
/// outbox from the second one on.
fn sent_late(rt: &(impl AllocGlobal + Wait), rounds: u64) -> Result<u64, Fail>
    requires { rounds ≤ 2 ^ 48 }
{
    let alloc = rt.alloc();
    let Routes {
        mut ends,
        cells,
        ..
    } = open_routes(alloc)?;
    let mut source = Serving::new(
        rt,
        &cells,
        vec![in alloc; comes(alloc, conclusion_of(1, &STUDIO))?]?,
    );
    let mut wire = WireScript::new(alloc, Vec::new(alloc));
    sent(rt, &mut ends, &mut source, &mut wire, rounds)
}

/// The rounds 0 and 64 look at all outboxes.
#[test]
fn a_reply_without_a_hint_leaves_in_the_next_64th_round(rt: HostRuntime) -> Result<(), Fail> {
    assert_eq!(&rt; sent_late(&rt, 64)?, 0);
    assert_eq!(&rt; sent_late(&rt, 65)?, 1);
    Ok(())
}
