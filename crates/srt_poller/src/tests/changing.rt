//! Routes that come and go while a poller runs. The expected outcomes were worked out from the rules by hand.

ghost use Rattle.std.specs.Prelude.{◌≡◌, ◌<◌, ◌≤◌, ◌+◌, ◌^◌, IfOk, length};
ghost use Rattle.std.specs.Vec.{vec_capacity};

use super::asking::Asking;
use super::datagrams::{
    CAMERA, STUDIO, conclusion_of, early_shutdown_of, hidden_refusal, publisher_answer,
    third_answer,
};
use super::{ALWAYS, ROUTES, SECRET, Serving, assert_handed, comes, entry, named, opened};
use crate::rounds::PollerRounds;
use crate::tables::ChangingRoutes;
use crate::{
    AddedRoute, DevicesOf, Ends, Openings, Order, PollerTask, Report, SourceStep, WireScript,
    pump_changing,
};
use srt_cookie::Secret;
use srt_lobby::NewName;
use srt_mailbox::{RouteCell, open_route};
use srt_samples::Block;
use srt_types::Mode;
use std::alloc::Global;
use std::cell::Cell;
use std::process::Abort;
use std::sync::Wait;
use std::test::Fail;

const ON: Order = Order::GoOn;

const CLOSE: Order = Order::CloseAll;

/// No route is added, and none is requested to close.
#[derive(Drop)]
struct Unchanged;

impl Openings for Unchanged {
    ghost use Rattle.std.specs.Prelude.{Some, None, [], false};

    ghost added = { λ o. Some [] };

    ghost requested = { λ o. Some [] };

    fn has_changes(&mut self) -> bool
        ensures { result ≡ false }
    {
        false
    }

    fn next(&mut self) -> Option<AddedRoute>
        ensures { result ≡ None }
    {
        None
    }

    fn next_close(&mut self, _routes: usize) -> Option<usize>
        ensures { result ≡ None }
    {
        None
    }
}

/// A route comes before a round, another one of its name later, and routes are asked to close before others, in the order of these.
#[derive(Drop)]
struct Changes<'a> {
    newcomer: Option<AddedRoute>,
    comes_in: u64,
    // the one that comes later, if it does
    another: Option<AddedRoute>,
    comes_again: Option<u64>,
    closings: &'a [(u64, usize)],
    closed: usize,
    // the number of calls of `has_changes`: one for each round
    rounds: Cell<u64>,
}

impl<'a> Openings for Changes<'a> {
    ghost use Rattle.std.specs.Prelude.{None};

    ghost added = { λ o. None };

    ghost requested = { λ o. None };

    fn has_changes(&mut self) -> bool {
        let round = self.rounds.get();
        self.rounds.set(round.saturating_add(1));
        let comes = self.newcomer.is_some() && self.comes_in == round;
        let again = self.another.is_some() && self.comes_again == Some(round);
        let closes = match self.closings.get(self.closed) {
            Some((in_round, _)) => *in_round == round,
            None => false,
        };
        comes || again || closes
    }

    fn next(&mut self) -> Option<AddedRoute> {
        let next = self.rounds.get();
        if next == self.comes_in.saturating_add(1) {
            return self.newcomer.take();
        }
        match self.comes_again {
            Some(round) if next == round.saturating_add(1) => self.another.take(),
            _ => None,
        }
    }

    fn next_close(&mut self, routes: usize) -> Option<usize> {
        let (in_round, route) = match self.closings.get(self.closed) {
            Some((in_round, route)) => (*in_round, *route),
            None => return None,
        };
        if self.rounds.get() == in_round.saturating_add(1) && route < routes {
            self.closed = self.closed.saturating_add(1);
            Some(route)
        } else {
            None
        }
    }
}

/// What happens in six rounds of a run with the routes `studio` and `files`.
#[derive(Clone, Copy)]
struct Play<'a> {
    /// The number of the first round.
    first: u64,
    /// The name of the third route.
    name: &'a str,
    /// It comes before this round, counted from the first.
    comes_in: u64,
    /// A fourth route of this name comes before this round, if it does.
    comes_again: Option<u64>,
    /// The routes that are asked to close, each before this round.
    closings: &'a [(u64, usize)],
    /// The numbers of conclusions that come in each round, one after the other.
    conclusions: &'a [u32],
    /// What they ask for.
    blocks: &'a [Block<'a>; 2],
    /// What the poller is asked.
    requested: &'a [Order],
}

/// The ends of the two routes, with room for 511.
fn with_room(alloc: Global, first: Ends, second: Ends) -> Result<Vec<Ends>, Fail>
    ensures { IfOk result (λ ends. (length ends.items ≡ 2) × (511 ≤ vec_capacity ends)) }
{
    let mut ends = Vec::with_capacity(alloc, 511)?;
    ends.push(first)?;
    ends.push(second)?;
    Ok(ends)
}

/// A route that comes, with this index, and its cell.
fn coming(alloc: Global, name: &str, index: usize) -> Result<(AddedRoute, RouteCell), Fail> {
    let entry = entry(alloc, &(name, Mode::Live, 1024))?;
    let Ok((ingress, _, cell, drain)) = open_route(alloc, &entry, index) else {
        return Err(Fail::from("the route opens"));
    };
    let newcomer = AddedRoute {
        name: NewName::of(alloc, &entry)?,
        ends: Ends { ingress, drain },
    };
    Ok((newcomer, cell))
}

/// In each round so many conclusions come.
fn steps(alloc: Global, play: &Play<'_>) -> Result<Vec<SourceStep>, Fail> {
    let Play {
        conclusions,
        blocks,
        ..
    } = *play;
    let mut steps = Vec::new(alloc);
    for count in conclusions {
        for _ in 0..*count {
            steps.push(comes(alloc, conclusion_of(1, blocks))?)?;
        }
        steps.push(SourceStep::Empty)?;
    }
    Ok(steps)
}

/// Asserts the report of six rounds, and the number of items that were applied to the routes. Returns the wire.
fn assert_changed(
    rt: &(impl AllocGlobal + Wait + Abort),
    play: Play<'_>,
    wanted: Report,
    applied: u32,
) -> Result<WireScript, Fail>
    requires { play.first + 6 < 2 ^ 64 }
{
    let alloc = rt.alloc();
    let entries = [entry(alloc, &ROUTES[0])?, entry(alloc, &ROUTES[1])?];
    let mut names = named(alloc, &entries, ALWAYS)?;
    let (studio, studio_cell) = opened(alloc, 0, 16)?;
    let (files, files_cell) = opened(alloc, 1, 16)?;
    let mut ends = with_room(alloc, studio, files)?;
    let (newcomer, cell) = coming(alloc, play.name, 2)?;
    let (another, other_cell) = coming(alloc, play.name, 3)?;
    let cells = [studio_cell, files_cell, cell, other_cell];
    let mut openings = Changes {
        newcomer: Some(newcomer),
        comes_in: play.comes_in,
        another: Some(another),
        comes_again: play.comes_again,
        closings: play.closings,
        closed: 0,
        rounds: Cell::new(0),
    };
    let mut source = Serving::new(rt, &cells, steps(alloc, &play)?);
    let mut wire = WireScript::new(alloc, Vec::new(alloc));
    let asking = Asking::of(alloc, play.requested);
    let secret = Secret::new(SECRET);
    let task = PollerTask {
        rt,
        alloc,
        secret: &secret,
        schedules: &[ALWAYS; 2],
        rounds: 6,
        signals: &asking,
    };
    let mut rounds = PollerRounds::new(alloc, &names, &[ALWAYS; 2]);
    rounds.next = play.first;
    let mut table = ChangingRoutes {
        ends: &mut ends,
        openings: &mut openings,
    };
    let made = rounds.make::<_, _, DevicesOf<_, _>, _>(
        &task,
        &mut table,
        &mut names,
        &mut source,
        &mut wire,
    );
    assert_eq!(rt; made, 6);
    assert_eq!(rt; rounds.poller.report(), wanted);
    assert_eq!(rt; source.applied, applied);
    Ok(wire)
}

/// A conclusion for the route `camera` comes in each of the rounds 0 to 3; the route comes before round 2.
const CAMERA_COMES: Play<'static> = Play {
    first: 0,
    name: "camera",
    comes_in: 2,
    comes_again: None,
    closings: &[],
    conclusions: &[1, 1, 1, 1],
    blocks: &CAMERA,
    requested: &[],
};

#[test]
fn a_route_that_comes_gets_its_datagrams_from_its_round_on(rt: HostRuntime) -> Result<(), Fail> {
    let wanted = Report {
        read: 4,
        answered: 2,
        accepted: 2,
        sent: 4,
        ..Report::NOTHING
    };
    let wire = assert_changed(&rt, CAMERA_COMES, wanted, 2)?;
    assert_handed(
        &rt,
        &wire,
        &[
            hidden_refusal(1),
            hidden_refusal(1),
            third_answer(1),
            third_answer(1),
        ],
    )
}

/// Its Close is offered in round 4, counted from the first one, and applied at the wait of that round. The third round has the
/// number 2^32.
#[test]
fn a_route_comes_and_goes_in_late_rounds(rt: HostRuntime) -> Result<(), Fail> {
    let play = Play {
        first: 4_294_967_294,
        closings: &[(4, 2)],
        conclusions: &[1; 6],
        ..CAMERA_COMES
    };
    let wanted = Report {
        read: 6,
        answered: 4,
        accepted: 2,
        sent: 7,
        ..Report::NOTHING
    };
    let wire = assert_changed(&rt, play, wanted, 3)?;
    assert_handed(
        &rt,
        &wire,
        &[
            hidden_refusal(1),
            hidden_refusal(1),
            third_answer(1),
            hidden_refusal(1),
            third_answer(1),
            early_shutdown_of(1),
            hidden_refusal(1),
        ],
    )
}

/// The first route is asked to close before round 1, but 16 conclusions fill its inbox, which is first served at the wait
/// of that round. So the conclusion of round 1 is accepted, and that of round 2 is not. Close is applied once.
#[test]
fn a_route_that_is_asked_to_close_is_offered_it_again(rt: HostRuntime) -> Result<(), Fail> {
    let play = Play {
        closings: &[(1, 0)],
        conclusions: &[16, 1, 1],
        blocks: &STUDIO,
        ..CAMERA_COMES
    };
    let wanted = Report {
        read: 18,
        answered: 1,
        accepted: 17,
        sent: 19,
        ..Report::NOTHING
    };
    let _ = assert_changed(&rt, play, wanted, 18)?;
    Ok(())
}

/// The third route has the name of the first, and comes before round 1. The first one is asked to close before round 2,
/// and is hidden in it: so the third one opens in round 3.
const USED_AGAIN: Play<'static> = Play {
    first: 0,
    name: "studio",
    comes_in: 1,
    comes_again: None,
    closings: &[(2, 0)],
    conclusions: &[1; 6],
    blocks: &STUDIO,
    requested: &[],
};

#[test]
fn a_name_is_used_again_once_its_route_has_closed(rt: HostRuntime) -> Result<(), Fail> {
    let wanted = Report {
        read: 6,
        answered: 1,
        accepted: 5,
        sent: 6,
        ..Report::NOTHING
    };
    let wire = assert_changed(&rt, USED_AGAIN, wanted, 5)?;
    assert_handed(
        &rt,
        &wire,
        &[
            publisher_answer(1),
            hidden_refusal(1),
            publisher_answer(1),
            early_shutdown_of(1),
            third_answer(1),
            third_answer(1),
        ],
    )
}

/// A fourth route of the same name comes before round 3, in which the third one opens. That one is asked to close before round 4,
/// and is hidden in it: so the fourth one opens in round 5.
#[test]
fn a_name_is_used_again_twice(rt: HostRuntime) -> Result<(), Fail> {
    let play = Play {
        comes_again: Some(3),
        closings: &[(2, 0), (4, 2)],
        ..USED_AGAIN
    };
    let wanted = Report {
        read: 6,
        answered: 2,
        accepted: 4,
        sent: 7,
        ..Report::NOTHING
    };
    let wire = assert_changed(&rt, play, wanted, 5)?;
    assert_handed(
        &rt,
        &wire,
        &[
            publisher_answer(1),
            hidden_refusal(1),
            publisher_answer(1),
            early_shutdown_of(1),
            hidden_refusal(1),
            third_answer(1),
            early_shutdown_of(1),
        ],
    )
}

/// The third route is asked to close in the round in which the first one closes, before it has opened: it never does.
#[test]
fn a_route_that_is_asked_to_close_before_it_opens_never_does(rt: HostRuntime) -> Result<(), Fail> {
    let play = Play {
        closings: &[(2, 2), (2, 0)],
        ..USED_AGAIN
    };
    let wanted = Report {
        read: 6,
        answered: 4,
        accepted: 2,
        sent: 7,
        ..Report::NOTHING
    };
    let wire = assert_changed(&rt, play, wanted, 3)?;
    assert_handed(
        &rt,
        &wire,
        &[
            publisher_answer(1),
            hidden_refusal(1),
            publisher_answer(1),
            early_shutdown_of(1),
            hidden_refusal(1),
            hidden_refusal(1),
            hidden_refusal(1),
        ],
    )
}

/// All are closed in the rounds 1 and 2. The route that comes before round 1 opens in round 3. Both others are closed.
#[test]
fn a_round_that_closes_all_opens_no_route_that_comes(rt: HostRuntime) -> Result<(), Fail> {
    let play = Play {
        comes_in: 1,
        conclusions: &[1; 6],
        requested: &[ON, CLOSE, CLOSE],
        ..CAMERA_COMES
    };
    let wanted = Report {
        read: 6,
        answered: 3,
        accepted: 3,
        sent: 5,
        ..Report::NOTHING
    };
    let wire = assert_changed(&rt, play, wanted, 4)?;
    assert_handed(
        &rt,
        &wire,
        &[
            hidden_refusal(1),
            hidden_refusal(1),
            hidden_refusal(1),
            third_answer(1),
            third_answer(1),
        ],
    )
}

/// Nothing comes, and a conclusion for the first route in each of three rounds is answered as in a run without changes.
#[test]
fn a_run_without_changes_is_as_before(rt: HostRuntime) -> Result<(), Fail> {
    let alloc = rt.alloc();
    let entries = [entry(alloc, &ROUTES[0])?, entry(alloc, &ROUTES[1])?];
    let mut names = named(alloc, &entries, ALWAYS)?;
    let (studio, studio_cell) = opened(alloc, 0, 16)?;
    let (files, files_cell) = opened(alloc, 1, 16)?;
    let mut ends = with_room(alloc, studio, files)?;
    let cells = [studio_cell, files_cell];
    let play = Play {
        conclusions: &[1, 1, 1],
        blocks: &STUDIO,
        ..CAMERA_COMES
    };
    let mut source = Serving::new(&rt, &cells, steps(alloc, &play)?);
    let mut wire = WireScript::new(alloc, Vec::new(alloc));
    let secret = Secret::new(SECRET);
    let asking = Asking::of(alloc, &[]);
    let task = PollerTask {
        rt: &rt,
        alloc,
        secret: &secret,
        schedules: &[ALWAYS; 2],
        rounds: 6,
        signals: &asking,
    };
    let pumping = pump_changing::<_, DevicesOf<_, _>, _, _>(
        &task,
        &mut names,
        &mut ends,
        &mut source,
        &mut wire,
        &mut Unchanged,
    );
    assert_eq!(&rt; pumping.rounds, 6);
    assert_eq!(&rt;
        pumping.report,
        Report {
            read: 3,
            accepted: 3,
            sent: 3,
            ..Report::NOTHING
        }
    );
    assert_handed(&rt, &wire, &[publisher_answer(1); 3])
}
