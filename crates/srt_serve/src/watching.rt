//! The watching thread of a run: it shows the routes to a watcher, reports refusals to it, passes its orders to the poller,
//! and makes its changes of the routes.

ghost use Rattle.std.specs.Prelude.{◌≡◌, ◌≢◌, ◌⊎◌, ◌≤◌, ◌+◌, ◌-◌, true, false, List, Some, IfOk, IfErr, IfNone, IsOk, IsErr, length, map, slice_get};
ghost use Rattle.srt_types.specs.Terms.{terms_of};
ghost use Rattle.srt_serve.specs.Opened.{terms_in};
ghost use Rattle.srt_mailbox.specs.Identities.{identity_in};
ghost use Rattle.srt_serve.specs.inside.Changing.{IsChangeFault, IsClosedAt, HasIndexAt, IsOpenedAt, IsNotOpened};
ghost use Rattle.srt_serve.specs.inside.Looking.{IsShown, IsShownAt, IsQuiet, IsQuietAt, IsBusy, IsOneBusy, IsCheckOf, AreReported};
ghost use Rattle.srt_serve.specs.inside.Reporting.{WereRecorded};
ghost use Rattle.srt_serve.specs.inside.Orders.{IsSet};
ghost use Rattle.srt_serve.specs.inside.Quiet.{HasNoSession, HasSession, is_check_quiet};
ghost use Rattle.srt_serve.specs.inside.UpTo.{UpTo};
ghost use Rattle.srt_serve.specs.inside.Watched.{known_with, status_of, AreTurns};
ghost use Rattle.srt_serve.specs.declared.known.Known.{Known as TheKnown};
ghost use Rattle.srt_serve.specs.inside.Taken.{taken_in};
ghost use Rattle.srt_supervision.specs.Answers.{Answer, AreClosings, AreOpenings};
ghost use Rattle.srt_supervision.specs.declared.order.Order.TheVariants.{GoOn};

use crate::answers::Beginning;
use crate::arrivals::{
    ChangeNotices, NameAttachment, NotSeated, RouteNotices, keep_seat, seat_route,
};
use crate::counters::{Count, MissedRefusals, SocketFaults};
use crate::evidence::{
    FlagSet, NothingWaits, OutboxHasHint, OutboxesRest, OutboxesSeen, RouteHost, RoutesSeen,
    RunOver, come, look_at_outboxes, run_over,
};
use crate::hosting::SeatsHosted;
use crate::known::Known;
use crate::shared_report::ReportNoted;
use crate::turns::{WatchedRun, watch_once};
use crate::watcher_channel::{OrderSet, WatcherChannel};
use srt_mailbox::{Observer, Seat, Serve};
use srt_route::Route;
use srt_supervision::{
    Answers, ChangeFault, ChangeRoutes, Order, Report, RouteChanges, RunStatus, Watch,
};
use srt_types::Entry;
use srt_types::product_limits::MAX_SESSIONS;
use srt_wakeups::Wakeups;
use std::alloc::Global;
use std::marker::PhantomData;
use std::sync::Wait;
use std::thread;

// The most refusals that are reported to a watcher between two of its rests.
const REFUSALS_PER_REST: u32 = 1024;

/// Makes the changes that a watcher requests.
#[derive(Drop)]
pub struct Changer<'a, C, N, A> {
    /// Allocates the memory of the routes that open.
    pub alloc: Global,
    /// The places of all routes, the taken ones first.
    pub places: &'a [C],
    /// Notifies the polling thread.
    pub notices: &'a N,
    /// The number of places that are taken.
    pub routes: usize,
    /// The watcher's answers.
    pub of: PhantomData<A>,
}

// Why the routes of a change weren't opened.
#[derive(Drop)]
enum NotOpened {
    // out of memory for the entry at this index, or it is out of its limits
    OutOfMemory(usize, NotSeated),
    // there are more entries than indexes left: this many are
    NoIndexLeft(usize),
}

impl NotOpened {
    ghost use Rattle.srt_serve.specs.inside.Changing.{fault_of};

    // As the watcher gets it.
    fn fault(&self) -> ChangeFault
        ensures { result ≡ fault_of self.now }
    {
        match self {
            NotOpened::OutOfMemory(at, _) => ChangeFault::OutOfMemory(*at),
            NotOpened::NoIndexLeft(left) => ChangeFault::NoIndexLeft(*left),
        }
    }
}

impl<A: Answers + Beginning, C: RouteHost<Seat = Seat<NameAttachment<A>>>, N> Changer<'_, C, N, A> {
    // Opens all routes of a change, without a place.
    fn open_all(&self, entries: &[Entry]) -> Result<Vec<Seat<NameAttachment<A>>>, NotOpened>
        requires { AreOpenings A.answered (map terms_of entries.now) }
        ensures terms { IfOk result (λ seats. terms_in (map (λ s. identity_in s.cell) seats.items) ≡ map terms_of entries.now) }
        ensures many { IfOk result (λ seats. length seats.items ≡ length entries.now) }
        ensures room { IfOk result (λ seats. length seats.items ≤ length self.now.places.now - self.now.routes) }
        ensures indexes { IfOk result (λ seats. UpTo (HasIndexAt (λ s. (identity_in s.cell).index) self.now.routes seats.items) (length seats.items)) }
        ensures fault { IfErr result (IsNotOpened self.now.routes (length self.now.places.now - self.now.routes) (length entries.now)) }
    {
        let left = self.places.len().saturating_sub(self.routes);
        if entries.len() > left {
            return Err(NotOpened::NoIndexLeft(left));
        }
        let mut seats = Vec::new(self.alloc);
        for entry in entries {
            let at = seats.len();
            let index = self.routes + at;
            let seat = match seat_route(self.alloc, entry, index) {
                Ok(seat) => seat,
                Err(none) => return Err(NotOpened::OutOfMemory(at, none)),
            };
            match keep_seat(&mut seats, seat, index) {
                Ok(()) => {}
                Err(none) => return Err(NotOpened::OutOfMemory(at, none)),
            }
        }
        Ok(seats)
    }

    /// The places that are taken.
    pub fn taken(&self) -> &[C]
        ensures { result.now ≡ taken_in self.now }
    {
        let taken = self.routes.min(self.places.len());
        &self.places[..taken]
    }
}

// Requests that these routes be closed, of those that there were before a change, and notifies the polling thread. The
// routes that the change opens are in their places.
fn leave_notices<N: ChangeNotices>(notices: &N, closes: &[usize], hosted: &SeatsHosted)
    requires { AreClosings N.answered closes.now }
    ensures closed { UpTo (IsClosedAt (N.requested notices.now) hosted.now.first closes.now) (length closes.now) }
    ensures notified { N.notified notices.now }
{
    for route in closes {
        if *route < hosted.first {
            let _ = notices.close(*route, hosted);
        }
    }
    let _ = notices.notify(hosted);
}

impl<
    A: Answers + Beginning,
    C: RouteHost<Seat = Seat<NameAttachment<A>>>,
    N: ChangeNotices,
> ChangeRoutes for Changer<'_, C, N, A> {
    ghost requires_of = { λ a. A.answered a × N.answered a };

    // Allocates all memory first, then puts the routes into their places, and then notifies the polling thread.
    fn change(&mut self, changes: RouteChanges) -> Result<usize, ChangeFault>
        requires closings { AreClosings (λ a. A.answered a × N.answered a) changes.closes.items }
        requires openings { AreOpenings (λ a. A.answered a × N.answered a) (map terms_of changes.opens.items) }
        ensures first { IfOk result (λ first. (first ≡ self.old.routes) × (self.new.routes ≡ first + length changes.opens.items)) }
        ensures opened { IfOk result (λ first. UpTo (IsOpenedAt C.hosts C.has_route (λ s. (identity_in s.cell).index) (λ s. (identity_in s.cell).terms)
            self.old.places.now first (map terms_of changes.opens.items)) (length changes.opens.items)) }
        ensures closed { IfOk result (λ first.
            UpTo (IsClosedAt (N.requested self.old.notices.now) first changes.closes.items) (length changes.closes.items)) }
        ensures notified { IfOk result (λ _. N.notified self.old.notices.now) }
        ensures fault { IfErr result (λ fault. IsChangeFault (length self.old.places.now - self.old.routes) (length changes.opens.items) fault) }
        ensures same { IfErr result (λ _. self.new ≡ self.old) }
    {
        let seats = match self.open_all(&changes.opens) {
            Ok(seats) => seats,
            Err(none) => return Err(none.fault()),
        };
        let first = self.routes;
        let hosted = self.host_all(seats);
        leave_notices(self.notices, &changes.closes, &hosted);
        Ok(first)
    }
}

// Whether a session of the route is open.
fn has_session(route: &Route) -> bool
    ensures none { result ≡ false → HasNoSession route.now }
    ensures some { result ≡ true → HasSession route.now }
{
    for slot in 0..MAX_SESSIONS {
        match route.session(slot) {
            Some(_) => return true,
            None => {}
        }
    }
    false
}

// Whether a route with this number of waiting replies has no open session, and no reply waits.
fn is_route_quiet(route: &Route, waiting: usize) -> bool
    ensures quiet { result ≡ true → (waiting ≡ 0) × HasNoSession route.now }
    ensures busy { result ≡ false → (waiting ≢ 0) ⊎ HasSession route.now }
{
    if waiting != 0 {
        return false;
    }
    !has_session(route)
}

// Whether a check that found all routes quiet or not, and a hint of a reply in an outbox or not, counts as quiet: only while
// the order is to close all or to end.
fn is_check_quiet(order: Order, all_quiet: bool, is_outbox_ready: bool) -> bool
    ensures { result ≡ is_check_quiet order all_quiet is_outbox_ready }
{
    match order {
        Order::GoOn => false,
        Order::CloseAll | Order::End => all_quiet && !is_outbox_ready,
    }
}

/// Shows routes to a watcher, if it wants them, and records of the last one whether it is quiet.
#[derive(Drop)]
pub struct Viewer<'a, T> {
    watch: &'a mut T,
    // whether it wants routes
    looks: bool,
    /// The index of the next route.
    pub index: usize,
    is_quiet: bool,
}

impl<'a, T: Watch> Viewer<'a, T> {
    /// Shows routes to this watcher, if `looks`, from the first one on.
    pub fn new(watch: &'a mut T, looks: bool) -> Viewer<'a, T>
        ensures { result.looks ≡ looks }
    {
        Viewer {
            watch,
            looks,
            index: 0,
            is_quiet: false,
        }
    }
}

impl<T: Watch> Observer for Viewer<'_, T> {
    ghost noted = { λ old new route waiting. (new.index ≡ old.index) × (new.looks ≡ old.looks) × (old.looks ≡ true → T.shown old.index route)
        × (new.is_quiet ≡ true → (waiting ≡ 0) × HasNoSession route) × (new.is_quiet ≡ false → (waiting ≢ 0) ⊎ HasSession route) };

    fn look(&mut self, route: &Route, waiting: usize) {
        self.is_quiet = is_route_quiet(route, waiting);
        if !self.looks {
            return;
        }
        self.watch.show_route(self.index, route);
    }
}

// Claims a route, and shows it to the watcher if it wants routes. Whether it was quiet; one that another thread has claimed
// isn't.
fn show_one<R: Wait, C: Serve, T: Watch>(rt: &R, cell: &C, viewer: &mut Viewer<'_, T>) -> bool
    ensures same { (viewer.new.index ≡ viewer.old.index) × (viewer.new.looks ≡ viewer.old.looks) }
    ensures shown { IsShown C.holds C.shows_none T.shown viewer.old.looks viewer.old.index cell.now }
    ensures quiet { result ≡ true → IsQuiet C.holds cell.now }
    ensures busy { result ≡ false → IsBusy C.holds C.shows_none cell.now }
{
    match cell.show(rt, viewer) {
        Ok(()) => viewer.is_quiet,
        Err(_) => false,
    }
}

// Claims each route, and shows it to the watcher, under its index, if it wants routes. Whether all were quiet.
fn show_all<R: Wait, C: Serve, T: Watch>(rt: &R, cells: &[C], viewer: &mut Viewer<'_, T>) -> bool
    ensures shown { UpTo (IsShownAt C.holds C.shows_none T.shown viewer.old.looks cells.now) (length cells.now) }
    ensures quiet { result ≡ true → UpTo (IsQuietAt C.holds cells.now) (length cells.now) }
    ensures busy { result ≡ false → IsOneBusy C.holds C.shows_none cells.now }
{
    let mut all_quiet = true;
    let mut index = 0;
    for cell in cells {
        viewer.index = index;
        all_quiet &= show_one(rt, cell, viewer);
        index += 1;
    }
    all_quiet
}

// Whether an outbox had the hint of a reply.
fn has_hint(outboxes: &Result<OutboxesRest, OutboxHasHint>) -> bool
    ensures none { result ≡ false → IsOk outboxes.now }
    ensures some { result ≡ true → IsErr outboxes.now }
{
    match outboxes {
        Ok(_) => false,
        Err(_) => true,
    }
}

/// What a check of the routes found.
#[derive(Drop)]
pub struct Check {
    /// It counts as one that found all quiet.
    pub is_quiet: bool,
    // what was found of the routes, and of the outboxes after that
    seen: OutboxesSeen,
}

/// Shows the routes to the watcher, if it wants them, and checks whether all are quiet, if the order is to close all or to end.
pub fn check_routes<R: Wait, C: Serve, T: Watch>(
    rt: &R,
    cells: &[C],
    wakeups: &Wakeups,
    order: Order,
    watch: &mut T,
    looks: bool,
) -> Check
    ensures shown { looks ≡ true → UpTo (IsShownAt C.holds C.shows_none T.shown true cells.now) (length cells.now) }
    ensures check { IsCheckOf C.holds C.shows_none order cells.now result }
{
    if !looks && matches!(order, Order::GoOn) {
        let unseen = look_at_outboxes(wakeups, RoutesSeen { all_quiet: false });
        return Check {
            is_quiet: false,
            seen: unseen,
        };
    }
    let all_quiet = show_all(rt, cells, &mut Viewer::new(watch, looks));
    let seen = look_at_outboxes(wakeups, RoutesSeen { all_quiet });
    Check {
        is_quiet: is_check_quiet(order, seen.routes.all_quiet, has_hint(&seen.outboxes)),
        seen,
    }
}

/// Reports the refusals that wait to the watcher, each once: until there is evidence that none waits, or 1024.
pub fn report_refusals<R: Wait, A: Answers, T: Watch>(
    rt: &R,
    channel: &WatcherChannel<A>,
    watch: &mut T,
) -> Option<NothingWaits>
    ensures reported { IfNone result (AreReported T.told 1024) }
    ensures recorded { WereRecorded (T.refusals watch.old) (T.refusals watch.new) result }
{
    for _ in 0..REFUSALS_PER_REST {
        match channel.refusals.take(rt) {
            Ok(taken) => taken.report(watch),
            Err(none) => return Some(none),
        }
    }
    None
}

/// A rest of the watcher.
#[derive(Drop)]
pub struct Rested<A: Answers> {
    // the counts that were left before, or evidence that none were
    left: Result<ReportNoted, FlagSet>,
    faults: Count<SocketFaults>,
    missed: Count<MissedRefusals>,
    /// The order that it gave then.
    pub order: Order,
    // evidence that the order was set
    set: OrderSet<A>,
    ghost is_set: { ∥ IsSet order set ∥₁ },
}

// Takes the report that was left since the last one was taken, and notes it. The error is evidence that none was left.
fn note_report<A: Answers>(
    channel: &WatcherChannel<A>,
    known: &mut Known,
) -> Result<ReportNoted, FlagSet>
    ensures { known.new ≡ known_with result known.old }
{
    match channel.report.take() {
        Ok(read) => Ok(read.note(known)),
        Err(wanted) => Err(wanted),
    }
}

/// Lets the watcher rest once, and sets its order.
pub fn rest<A: Answers, T: Watch>(
    channel: &WatcherChannel<A>,
    watch: &mut T,
    known: &mut Known,
) -> Rested<A>
    requires { (a : Answer) → T.answered a → A.answered a }
    ensures known { known.new ≡ known_with result.left known.old }
    ensures rested { T.rested (status_of known.new result.faults.number result.missed.number) result.order }
{
    let left = note_report(channel, known);
    let faults = channel.faults();
    let missed = channel.missed();
    let order = watch.next(known.status(&faults, &missed));
    Rested {
        left,
        faults,
        missed,
        order,
        set: channel.set_order(order),
    }
}

/// Lets the watcher change the routes, unless its order is to close all or to end.
pub fn change_routes<A: Answers + Beginning, C, T: Watch>(
    changer: &mut Changer<'_, C, RouteNotices<A>, A>,
    watch: &mut T,
    order: Order,
)
where
    C: RouteHost<Seat = Seat<NameAttachment<A>>>,
    requires { (a : Answer) → T.answered a → A.answered a }
    ensures changed { order ≡ GoOn → T.changed }
    ensures kept { order ≢ GoOn → (watch.new ≡ watch.old) × (changer.new ≡ changer.old) }
{
    if !matches!(order, Order::GoOn) {
        return;
    }
    watch.change_routes(changer);
}

/// Watches until the run has ended. After each rest of the watcher the poller gets its order, the refusals that wait are
/// reported, the watcher changes the routes, and the routes are shown if it wants them. What is known of the watcher's
/// answers is known of those that the polling thread gets. Each turn begins with what the one before left known. At first there
/// are the routes with which the run begins.
pub fn watch_routes<R: Wait, A: Answers + Beginning, C, T: Watch>(
    rt: &R,
    mut changer: Changer<'_, C, RouteNotices<A>, A>,
    wakeups: &Wakeups,
    channel: &WatcherChannel<A>,
    watch: &mut T,
    known: &mut Known,
) -> RunOver
where
    C: Serve + RouteHost<Seat = Seat<NameAttachment<A>>>,
    requires answered { (a : Answer) → T.answered a → A.answered a }
    requires first { changer.routes ≡ A.first }
    ensures { (between : List TheKnown) × AreTurns T.rested between known.old known.new }
{
    let came = come(wakeups);
    let run = WatchedRun {
        rt,
        wakeups,
        channel,
    };
    for _ in rt.forever() {
        match run_over(wakeups, &came) {
            Ok(over) => return over,
            Err(turn) => {
                let _ = watch_once(&run, &mut changer, watch, known, turn);
            }
        }
        thread::yield_now();
    }
    unreachable!()
}
