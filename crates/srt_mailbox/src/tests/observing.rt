//! Snapshots of a route: what they contain, that none makes a step, and that the route is claimed meanwhile and
//! returned.

use crate::gates::Served;
use crate::observer::Observer;
use crate::tests::datagrams::publisher_conclusion;
use crate::tests::{APPLIED, Fixed, IDLE, MOVED, assert_served, offer_times, peer, studio, tick};
use crate::{RouteCell, Serve};
use srt_route::Route;
use srt_types::{Peer, Role};
use std::process::Abort;
use std::sync::Wait;
use std::test::Fail;

/// The state in the last snapshot.
#[derive(Drop)]
pub struct Eye {
    looks: u32,
    clock: u64,
    waiting: usize,
    // the peer of the session in the first slot, and whether it publishes
    session: Option<(Peer, bool)>,
}

impl Eye {
    pub fn new() -> Eye {
        Eye {
            looks: 0,
            clock: 0,
            waiting: 0,
            session: None,
        }
    }
}

impl Observer for Eye {
    fn look(&mut self, route: &Route, waiting: usize) {
        self.looks = self.looks.saturating_add(1);
        self.clock = route.clock();
        self.waiting = waiting;
        self.session = match route.session(0) {
            Some(view) => Some((view.peer, matches!(view.role, Role::Publish))),
            None => None,
        };
    }
}

/// Shows the route, and asserts its clock in microseconds, the number of waiting replies, and the session of its first
/// slot.
fn assert_seen<C: Serve>(
    rt: &(impl Wait + Abort),
    cell: &C,
    clock: u64,
    waiting: usize,
    session: Option<(Peer, bool)>,
) {
    let mut eye = Eye::new();
    assert!(rt; cell.show(rt, &mut eye).is_ok());
    assert!(rt; eye.looks == 1 && eye.clock == clock && eye.waiting == waiting);
    assert!(rt; eye.session == session);
}

/// The conclusion is in the inbox, is processed, and its answer is moved: a snapshot makes none of these three steps.
#[test]
fn a_look_sees_the_session_and_makes_no_turn(rt: HostRuntime) -> Result<(), Fail> {
    let (mut ingress, mut clock, cell, _drain) = studio(rt.alloc())?;
    offer_times(&rt, &mut ingress, publisher_conclusion(), 1)?;
    let publisher = Some((peer(5000), true));
    assert_seen(&rt, &cell, 0, 0, None);
    assert_served(&rt, &cell, &[APPLIED]);
    assert_seen(&rt, &cell, 1_000_000, 1, publisher);
    assert_seen(&rt, &cell, 1_000_000, 1, publisher);
    assert_served(&rt, &cell, &[MOVED, IDLE]);
    assert_seen(&rt, &cell, 1_000_000, 0, publisher);
    assert!(rt; tick(&rt, &mut clock, 1_000_001));
    assert_seen(&rt, &cell, 1_000_000, 0, publisher);
    assert_served(&rt, &cell, &[APPLIED, IDLE]);
    assert_seen(&rt, &cell, 1_000_001, 0, publisher);
    Ok(())
}

/// An observer that serves and shows the route of its snapshot.
#[derive(Drop)]
struct Inside<'a, R> {
    rt: &'a R,
    cell: &'a RouteCell,
    served: Option<Served>,
    shown: bool,
    eye: Eye,
}

impl<R: Wait> Observer for Inside<'_, R> {
    fn look(&mut self, _route: &Route, _waiting: usize) {
        self.served = Some(self.cell.serve(self.rt, &mut Fixed::open()));
        self.shown = self.cell.show(self.rt, &mut self.eye).is_ok();
    }
}

#[test]
fn a_route_that_is_looked_at_is_busy(rt: HostRuntime) -> Result<(), Fail> {
    let (mut ingress, _clock, cell, _drain) = studio(rt.alloc())?;
    offer_times(&rt, &mut ingress, publisher_conclusion(), 1)?;
    let mut inside = Inside {
        rt: &rt,
        cell: &cell,
        served: None,
        shown: true,
        eye: Eye::new(),
    };
    assert!(rt; cell.show(&rt, &mut inside).is_ok());
    assert!(rt;
        inside.served == Some(Served::ClaimedElsewhere) && !inside.shown && inside.eye.looks == 0
    );
    assert_served(&rt, &cell, &[APPLIED, MOVED, IDLE]);
    Ok(())
}
