//! What a watcher is told of the poller's counts, and of a poller that makes no rounds.

use crate::tests::datagrams::{FIRST, STUDIO, conclusion_of};
use crate::tests::watched::{MANY, studio, watched};
use crate::tests::{ARRIVALS, Again, Meeting, YIELDS, scene_of};
use crate::{Answers, ChangeRoutes, Refusal, RunStatus, Watch};
use srt_poller::{Order, Report};
use srt_route::Route;
use std::sync::Arc;
use std::sync::atomic::Ordering;
use std::test::Fail;
use std::thread;

/// The number of rests for which the source is held, and after that of reports until the end.
const HELD: u64 = 20;

/// When a watcher of counts asks to end.
#[derive(Clone, Copy)]
enum Until {
    /// Once a route accepted `ARRIVALS` datagrams, and as many replies were sent.
    Answered,
    /// Once the source was held for `HELD` rests, and `HELD` reports came after that.
    Freed,
}

/// A watcher that follows the counts. It asks to end after `YIELDS` rests at last.
#[derive(Drop)]
struct Follower {
    meeting: Arc<Meeting>,
    until: Until,
    rests: u32,
    is_late: bool,
    /// The counts that it was told last.
    counts: Report,
    /// How often they had more datagrams than before.
    grown: u64,
    /// The number of rests for which the source was held, and the reports before and after these.
    held: u64,
    before: u64,
    after: u64,
}

impl Follower {
    fn new(meeting: &Arc<Meeting>, until: Until) -> Result<Follower, Fail> {
        Ok(Follower {
            meeting: Arc::try_clone(meeting)?,
            until,
            rests: 0,
            is_late: false,
            counts: Report::NOTHING,
            grown: 0,
            held: 0,
            before: 0,
            after: 0,
        })
    }

    /// Lets the source give one datagram more, once it was told of all that came.
    fn follow(&mut self, counts: Report) -> Order {
        if counts.read > self.counts.read {
            self.grown = self.grown.saturating_add(1);
        }
        self.counts = counts;
        self.meeting
            .accepted
            .store(counts.accepted, Ordering::SeqCst);
        self.meeting.reported.store(counts.read, Ordering::SeqCst);
        if counts.accepted >= ARRIVALS && counts.sent >= ARRIVALS {
            Order::End
        } else {
            Order::GoOn
        }
    }

    /// Holds the source in its second wait for some rests, and counts the reports meanwhile.
    fn hold(&mut self, reports: u64) -> Order {
        if !self.meeting.waited.load(Ordering::SeqCst) {
            return Order::GoOn;
        }
        if self.held == 0 {
            self.before = reports;
        }
        if self.held < HELD {
            self.held = self.held.saturating_add(1);
            self.after = reports;
            return Order::GoOn;
        }
        self.meeting.freed.store(true, Ordering::SeqCst);
        if reports >= self.after.saturating_add(HELD) {
            Order::End
        } else {
            Order::GoOn
        }
    }
}

impl Answers for Follower {
    ghost answered = { λ a. Unit {0} };
}

impl Watch for Follower {
    fn next(&mut self, reported: RunStatus) -> Order {
        thread::yield_now();
        self.rests = self.rests.saturating_add(1);
        if self.rests >= YIELDS {
            self.is_late = true;
            return Order::End;
        }
        match self.until {
            Until::Answered => self.follow(reported.counts),
            Until::Freed => self.hold(reported.reports),
        }
    }

    fn wants_routes(&mut self) -> bool {
        false
    }

    fn show_route(&mut self, _index: usize, _route: &Route) {}

    fn refused(&mut self, _refusal: &Refusal) {}

    fn change_routes<C: ChangeRoutes>(&mut self, _run: &mut C) {}
}

/// Each datagram comes once the watcher was told of the one before, so it is told of each number of them. One that finds
/// the inbox full of ticks isn't answered, and another one comes.
#[test]
fn a_watcher_sees_the_counts_grow_to_the_report(rt: HostRuntime) -> Result<(), Fail> {
    let routes = studio(rt.alloc())?;
    let mut scene = scene_of(
        rt.alloc(),
        &[conclusion_of(FIRST, &STUDIO)],
        Again::Reported,
    )?;
    let follower = Follower::new(&scene.meeting, Until::Answered)?;
    let ran = watched(&rt, &routes, &mut scene, follower, MANY)?;
    let read = ran.report.read;
    assert!(rt; !ran.watch.is_late && ran.watch.grown == read && read >= ARRIVALS);
    assert_eq!(rt;
        ran.report,
        Report {
            read,
            accepted: ARRIVALS,
            full: read.saturating_sub(ARRIVALS),
            sent: ARRIVALS,
            ..Report::NOTHING
        }
    );
    assert_eq!(rt; ran.watch.counts, ran.report);
    Ok(())
}

/// While the source waits, at most the report is told that was left before. Once it goes on, there are reports again.
#[test]
fn a_poller_that_makes_no_rounds_tells_nothing(rt: HostRuntime) -> Result<(), Fail> {
    let routes = studio(rt.alloc())?;
    let mut scene = scene_of(rt.alloc(), &[], Again::Freed)?;
    let follower = Follower::new(&scene.meeting, Until::Freed)?;
    let ran = watched(&rt, &routes, &mut scene, follower, MANY)?;
    assert!(rt; !ran.watch.is_late && !scene.meeting.is_late.load(Ordering::SeqCst));
    assert!(rt; ran.watch.held == HELD && ran.watch.after <= ran.watch.before.saturating_add(1));
    Ok(())
}
