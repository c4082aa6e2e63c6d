//! What the polling thread tells a watcher, and what it is asked, without threads.

use crate::evidence::{come, run_over};
use crate::inline_serving::InlineServer;
use crate::known::Known;
use crate::tests::datagrams::{
    SECOND, STUDIA, conclusion_answer, conclusion_of, header_alone, induction_answer, refusal,
};
use crate::tests::peer;
use crate::tests::watched::studio;
use crate::turns::tests::give_up;
use crate::watcher_channel::{PollerChannel, WatcherChannel};
use crate::{Answers, ChangeRoutes, Refusal, RunStatus, Watch};
use srt_lobby::Names;
use srt_mailbox::{RouteCell, Ungated};
use srt_poller::{Order, PollerObserver, Report};
use srt_route::Route;
use srt_types::NotAdmitted;
use srt_wakeups::Wakeups;
use std::alloc::Global;
use std::process::Abort;
use std::sync::Wait;
use std::test::Fail;

/// Answers of which nothing is known.
struct Anything;

impl Answers for Anything {
    ghost answered = { λ a. Unit {0} };
}

/// The name of the route `studio`.
fn names_of_studio(alloc: Global) -> Result<Names, Fail> {
    match Names::open(alloc, &studio(alloc)?.entries) {
        Ok(names) => Ok(names),
        Err(_) => Err(Fail::from("names that don't open")),
    }
}

/// A watcher that says whether the last refusal that it was told was this one: its route, code, name and cause.
#[derive(Drop)]
struct Expecting<'a> {
    route: Option<usize>,
    code: u32,
    name: &'a [u8],
    cause: Option<NotAdmitted>,
    was_told: bool,
}

impl Answers for Expecting<'_> {
    ghost answered = { λ a. Unit {0} };
}

impl Watch for Expecting<'_> {
    fn next(&mut self, _status: RunStatus) -> Order {
        Order::GoOn
    }

    fn wants_routes(&mut self) -> bool {
        false
    }

    fn show_route(&mut self, _index: usize, _route: &Route) {}

    fn refused(&mut self, refusal: &Refusal) {
        self.was_told = refusal.peer == peer()
            && refusal.route == self.route
            && refusal.code == self.code
            && refusal.name.as_slice() == self.name
            && refusal.cause == self.cause;
    }

    fn change_routes<C: ChangeRoutes>(&mut self, _run: &mut C) {}
}

/// Takes the first refusal that waits, if one does, and tells it to this watcher. False if none waits.
fn report_one<R: Wait>(
    rt: &R,
    channel: &WatcherChannel<Anything>,
    watch: &mut Expecting<'_>,
) -> bool {
    match channel.refusals.take(rt) {
        Ok(taken) => {
            taken.report(watch);
            true
        }
        Err(_) => false,
    }
}

/// Whether no refusal waits.
fn none_waits<R: Wait>(rt: &R, channel: &WatcherChannel<Anything>) -> bool {
    let mut watch = Expecting {
        route: None,
        code: 0,
        name: b"",
        cause: None,
        was_told: false,
    };
    !report_one(rt, channel, &mut watch)
}

/// The first refusal that waits: its route, code, name and cause.
fn assert_reported(
    rt: &(impl Wait + Abort),
    channel: &WatcherChannel<Anything>,
    route: Option<usize>,
    code: u32,
    name: &[u8],
    cause: Option<NotAdmitted>,
) {
    let mut watch = Expecting {
        route,
        code,
        name,
        cause,
        was_told: false,
    };
    assert!(rt; report_one(rt, channel, &mut watch));
    assert!(rt; watch.was_told);
}

/// A polling thread's part in a watched run without routes, which serves none.
fn watched_inline<'a, R: Wait>(
    rt: &'a R,
    cells: &'a [RouteCell],
    wakeups: &'a Wakeups,
    channel: &'a WatcherChannel<Anything>,
) -> InlineServer<'a, R, RouteCell, Ungated, WatcherChannel<Anything>> {
    InlineServer::new(rt, cells, wakeups, Some(channel), None)
}

/// Of 70 refusals the first 64 find a place, and six are missed. Answers of other types are none.
#[test]
fn refusals_that_find_no_place_are_counted(rt: HostRuntime) -> Result<(), Fail> {
    let alloc = rt.alloc();
    let cells: Vec<RouteCell> = Vec::new(alloc);
    let wakeups = Wakeups::open(alloc, 0, 1)?;
    let channel = WatcherChannel::<Anything>::open(alloc)?;
    let inline = watched_inline(&rt, &cells, &wakeups, &channel);
    let conclusion = conclusion_of(SECOND, &STUDIA).bytes(alloc)?;
    let refusal = refusal().bytes(alloc)?;
    let names = names_of_studio(alloc)?;
    inline.answered(
        &names,
        peer(),
        &conclusion,
        &induction_answer().bytes(alloc)?,
    );
    inline.replied(7, peer(), &conclusion_answer().bytes(alloc)?);
    inline.replied(7, peer(), &header_alone().bytes(alloc)?);
    assert!(rt; none_waits(&rt, &channel) && channel.missed().number == 0);
    inline.replied(7, peer(), &refusal);
    for _ in 0..69u32 {
        inline.answered(&names, peer(), &conclusion, &refusal);
    }
    assert_eq!(rt; channel.missed().number, 6);
    assert_reported(&rt, &channel, Some(7), 1002, b"", None);
    for _ in 0..63u32 {
        assert_reported(
            &rt,
            &channel,
            None,
            1002,
            b"studia",
            Some(NotAdmitted::UnknownName),
        );
    }
    assert!(rt; none_waits(&rt, &channel));
    inline.failed();
    inline.failed();
    assert_eq!(rt; channel.faults().number, 2);
    Ok(())
}

/// The report that was left, if one was. `ended` is of a run that is over.
fn taken(channel: &WatcherChannel<Anything>, ended: &Wakeups) -> Option<Report> {
    let over = match run_over(ended, &come(ended)) {
        Ok(over) => over,
        Err(turn) => {
            give_up(turn);
            return None;
        }
    };
    let mut known = Known::new();
    let report = match channel.report.take() {
        Ok(read) => Some(read.note(&mut known).report),
        Err(_) => None,
    };
    let _ = known.end(over);
    report
}

/// Counts are left once between two takes, the first ones of those that are told.
#[test]
fn counts_are_reported_when_they_are_wanted(rt: HostRuntime) -> Result<(), Fail> {
    let alloc = rt.alloc();
    let cells: Vec<RouteCell> = Vec::new(alloc);
    let wakeups = Wakeups::open(alloc, 0, 1)?;
    let channel = WatcherChannel::<Anything>::open(alloc)?;
    let inline = watched_inline(&rt, &cells, &wakeups, &channel);
    let ended = Wakeups::open(alloc, 0, 1)?;
    ended.finish();
    let counts = Report {
        read: 5,
        sent: 7,
        ..Report::NOTHING
    };
    assert!(rt; taken(&channel, &ended).is_none());
    inline.reported(&counts);
    inline.reported(&Report::NOTHING);
    assert_eq!(rt; taken(&channel, &ended), Some(counts));
    assert!(rt; taken(&channel, &ended).is_none());
    inline.reported(&Report::NOTHING);
    assert_eq!(rt; taken(&channel, &ended), Some(Report::NOTHING));
    Ok(())
}

/// Nothing is asked after the end.
#[test]
fn the_end_is_final(rt: HostRuntime) -> Result<(), Fail> {
    let channel = WatcherChannel::<Anything>::open(rt.alloc())?;
    assert_eq!(rt; channel.order().order, Order::GoOn);
    let _ = channel.set_order(Order::CloseAll);
    assert_eq!(rt; channel.order().order, Order::CloseAll);
    let _ = channel.set_order(Order::GoOn);
    assert_eq!(rt; channel.order().order, Order::GoOn);
    let _ = channel.set_order(Order::End);
    let _ = channel.set_order(Order::GoOn);
    assert_eq!(rt; channel.order().order, Order::End);
    Ok(())
}
