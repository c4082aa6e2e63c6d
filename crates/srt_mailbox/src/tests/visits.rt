//! The queries of a gate: before each step, for the cell's own route, and never after it refused. A batch returns the
//! route to its cell, however many steps it made.

use crate::gates::{Gate, Served, Visit};
use crate::tests::{APPLIED, Ends, IDLE, assert_served, assert_visited, entry, tick};
use crate::{ClockEnd, EmptyPlace, Serve, TakenElsewhere, open_route};
use std::alloc::Global;
use std::process::Abort;
use std::sync::Wait;
use std::test::Fail;

/// A gate that permits a number of steps and then refuses. It records the indexes for which it was queried as the
/// digits of a number.
#[derive(Drop)]
struct Noting {
    left: u32,
    noted: u64,
    held: u64,
}

impl Noting {
    fn new(left: u32) -> Noting {
        Noting {
            left,
            noted: 0,
            held: 0,
        }
    }
}

impl Gate for Noting {
    ghost use Rattle.std.specs.Prelude.{None};

    ghost held = { λ gate. gate.held };

    ghost requested = { λ _. None };

    fn allows(&mut self, route: usize) -> bool {
        self.noted = self.noted.wrapping_mul(10).wrapping_add(route as u64);
        if self.left == 0 {
            self.held = self.held.saturating_add(1);
            return false;
        }
        self.left -= 1;
        true
    }

    fn is_elsewhere(&self, _route: usize, _taken: TakenElsewhere) {}

    fn seats_nobody(&self, _empty: EmptyPlace) {}

    fn held(&self) -> u64 {
        self.held
    }
}

/// Returns a route of this index, with an inbox of 300 places.
fn wide(alloc: Global, index: usize) -> Result<Ends, Fail> {
    let mut wide = entry(alloc)?;
    wide.inbox = 300;
    match open_route(alloc, &wide, index) {
        Ok(ends) => Ok(ends),
        Err(_) => Err(Fail::from("the route opens")),
    }
}

fn tick_times(rt: &(impl Wait + Abort), clock: &mut ClockEnd, n: usize) {
    for _ in 0..n {
        assert!(rt; tick(rt, clock, 5));
    }
}

/// Makes a batch with a gate that permits `passes` steps: asserts the outcome, and the digits of the queries.
fn assert_noted<C: Serve>(
    rt: &(impl Wait + Abort),
    cell: &C,
    passes: u32,
    wanted: (u32, Option<Served>),
    noted: u64,
) {
    let mut gate = Noting::new(passes);
    let (turns, end) = wanted;
    let visit = cell.visit(rt, &mut gate, 64);
    let moved = 0;
    assert_eq!(rt; visit, Visit { turns, moved, end });
    assert_eq!(rt; gate.noted, noted);
}

/// Of seven messages, three are processed, then none, then one, then the other three.
#[test]
fn a_visit_asks_before_each_turn_and_ends_at_a_refusal(rt: HostRuntime) -> Result<(), Fail> {
    let (_ingress, mut clock, cell, _drain) = wide(rt.alloc(), 4)?;
    tick_times(&rt, &mut clock, 7);
    assert_noted(&rt, &cell, 3, (3, Some(Served::GateRefused)), 4444);
    assert_noted(&rt, &cell, 0, (0, Some(Served::GateRefused)), 4);
    assert_noted(&rt, &cell, 1, (1, Some(Served::GateRefused)), 44);
    assert_noted(&rt, &cell, 9, (3, Some(IDLE)), 4444);
    Ok(())
}

#[test]
fn a_long_visit_gives_the_route_back(rt: HostRuntime) -> Result<(), Fail> {
    let (_ingress, mut clock, cell, _drain) = wide(rt.alloc(), 0)?;
    tick_times(&rt, &mut clock, 300);
    assert_visited(&rt, &cell, 256, (256, 0, None));
    assert_visited(&rt, &cell, 64, (44, 0, Some(IDLE)));
    tick_times(&rt, &mut clock, 300);
    assert_visited(&rt, &cell, 1000, (300, 0, Some(IDLE)));
    tick_times(&rt, &mut clock, 1);
    assert_served(&rt, &cell, &[APPLIED, IDLE]);
    Ok(())
}

/// Two messages, and the queries of a gate at a route of this index, by two steps, of which it refuses the second, and
/// then by a batch.
fn assert_queried_about(
    rt: &(impl AllocGlobal + Wait + Abort),
    index: usize,
    twice: u64,
) -> Result<(), Fail> {
    let (_ingress, mut clock, cell, _drain) = wide(rt.alloc(), index)?;
    tick_times(rt, &mut clock, 2);
    let mut gate = Noting::new(1);
    assert_eq!(rt; cell.serve(rt, &mut gate), APPLIED);
    assert_eq!(rt; cell.serve(rt, &mut gate), Served::GateRefused);
    assert_eq!(rt; gate.noted, twice);
    assert_noted(rt, &cell, 9, (1, Some(IDLE)), twice);
    Ok(())
}

/// An index, and its digit twice.
const INDEXES: [(usize, u64); 5] = [(0, 0), (1, 11), (2, 22), (3, 33), (7, 77)];

fn assert_all_queried_about(
    rt: &(impl AllocGlobal + Wait + Abort),
    rows: &[(usize, u64)],
) -> Result<(), Fail> {
    for (index, twice) in rows {
        assert_queried_about(rt, *index, *twice)?;
    }
    Ok(())
}

#[test]
fn a_gate_is_asked_about_the_route_that_is_served(rt: HostRuntime) -> Result<(), Fail> {
    assert_all_queried_about(&rt, &INDEXES)
}
