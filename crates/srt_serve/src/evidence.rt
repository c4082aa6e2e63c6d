//! Evidence of what a thread found in a value that other threads change at any time: of a plain atomic no clause states
//! what it has. Only the functions of this file make any, each where it found that.

ghost use Rattle.std.specs.Prelude.{◌≡◌, ◌≢◌, ◌<◌, ◌≤◌, ℕ, suc, true, ◌++◌, ◌∷◌, [], Some, IfSome, IfNone, IfOk, IfErr, length, slice_get};
ghost use Rattle.std.specs.Sync.Atomic.Rule.{StaysUnderAdd};
ghost use Rattle.srt_mailbox.specs.Cells.{CellIdentity};
ghost use Rattle.srt_mailbox.specs.Places.{arrived, places_of};
ghost use Rattle.srt_mailbox.specs.Seats.{IsNewPoller};
ghost use Rattle.srt_supervision.specs.Answers.{AllClose, Closes, RunEnds, IsOrdered};
ghost use Rattle.srt_supervision.specs.Refusals.{with_told};
ghost use Rattle.srt_serve.specs.inside.Orders.{order_in, IsRead};
ghost use Rattle.srt_serve.specs.inside.Found.{WasSet, StatedNone};

use crate::running::RunFault;
use crate::turns::Turn;
use srt_mailbox::{Attachment, NoneSeated, Place, PollerEnds, Seat, SeatReader};
use srt_poller::Pumping;
use srt_supervision::{Answers, Order, Refusal, Watch};
use srt_wakeups::{RouteMarks, RunState, SharedMarks, SharedQueue, SharedWord, Wakeups};
use std::cell::Cell;
use std::marker::PhantomData;
use std::snapshot::Snapshot;
use std::sync::Wait;

/// Evidence that the calling thread was counted as running.
#[derive(Drop)]
pub struct Came(());

/// Counts the calling thread as running: as `Wakeups::arrive`.
pub fn come<M: RunState>(wakeups: &M) -> Came
    ensures { M.came wakeups.now }
{
    wakeups.come();
    Came(())
}

/// Evidence that a run was over.
#[derive(Drop)]
pub struct RunOver(());

/// Evidence that a run is over, for a thread that was counted as running. The error is a turn, which the thread has to make
/// since the run isn't.
pub fn run_over<M: RunState>(wakeups: &M, _came: &Came) -> Result<RunOver, Turn>
    ensures over { IfOk result (λ _. M.was_over wakeups.now) }
    ensures on { IfErr result (λ _. M.went_on wakeups.now) }
{
    if wakeups.is_over() {
        Ok(RunOver(()))
    } else {
        Err(Turn::due())
    }
}

/// Evidence that all threads of a run had arrived.
#[derive(Drop)]
pub struct AllArrived(());

/// Evidence that some threads of a run hadn't arrived.
#[derive(Drop)]
pub struct ThreadsMissing(());

/// As `Wakeups::gather`. The result is evidence that it returned true, and the error that it returned false.
pub fn gather<R: Wait, M: RunState>(rt: &R, wakeups: &M) -> Result<AllArrived, ThreadsMissing>
    ensures all { IfOk result (λ _. M.all_came wakeups.now) }
    ensures missing { IfErr result (λ _. M.some_missing wakeups.now) }
{
    if wakeups.await_all(rt) {
        Ok(AllArrived(()))
    } else {
        Err(ThreadsMissing(()))
    }
}

/// Evidence that a run was ended, and after what.
#[derive(Drop)]
pub struct RunEnded {
    /// The outcome of the poller's rounds; none if it made none.
    pub pumping: Option<Pumping>,
    ended: (),
}

/// Ends a run after the rounds of its poller, if it made any: as `Wakeups::finish`.
pub fn end_after<M: RunState>(wakeups: &M, pumping: Option<Pumping>) -> RunEnded
    ensures after { result.pumping ≡ pumping }
    ensures ended { M.ended wakeups.now }
{
    wakeups.end_run();
    RunEnded { pumping, ended: () }
}

/// Evidence that not all workers of a run could be started, and that the run was ended for that.
#[derive(Drop)]
pub struct NotStarted {
    /// A thread couldn't be started, or memory for the list of the workers was refused.
    pub fault: RunFault,
    // private, so that nothing else makes any
    ended: RunEnded,
}

/// Ends a run of which not all workers could be started, with this fault.
pub fn end_unstarted<M: RunState>(wakeups: &M, fault: RunFault) -> NotStarted
    ensures fault { result.fault ≡ fault }
    ensures ended { M.ended wakeups.now }
{
    NotStarted {
        fault,
        ended: end_after(wakeups, None),
    }
}

/// A route that the calling worker serves. It has no `Drop`: whoever entered a route has to leave it.
pub struct Entered<'a, C, M> {
    /// The marks of the routes.
    pub marks: &'a M,
    /// The route's cell.
    pub cell: &'a C,
    /// The route.
    pub route: usize,
    entered: (),
}

/// Enters the route with this index, of these, as `Wakeups::enter` does. `None` if there is none, or if another worker
/// serves it.
pub fn enter<'a, C, M: RouteMarks>(
    marks: &'a M,
    cells: &'a [C],
    route: usize,
) -> Option<Entered<'a, C, M>>
    ensures route { IfSome result (λ e. e.route ≡ route) }
    ensures cell { IfSome result (λ e. slice_get cells.now route ≡ Some e.cell.now) }
    ensures marks { IfSome result (λ e. e.marks.now ≡ marks.now) }
    ensures none { IfNone result (route < length cells.now → M.passed marks.now route) }
{
    let Some(cell) = cells.get(route) else {
        return None;
    };
    if !marks.begin(route) {
        return None;
    }
    Some(Entered {
        marks,
        cell,
        route,
        entered: (),
    })
}

/// Evidence that a worker left a route.
#[derive(Drop)]
pub struct LeftRoute {
    /// Whether it left work there, so that the route's inbox was marked as ready.
    pub is_left: bool,
    left: (),
}

impl<C, M: RouteMarks> Entered<'_, C, M> {
    /// Leaves the route, as `Wakeups::leave` does.
    pub fn leave(self, is_left: bool) -> LeftRoute
        ensures left { result.is_left ≡ is_left }
        ensures passed { M.passed self.entry.marks.now self.entry.route }
        ensures marked { is_left ≡ true → M.left self.entry.marks.now self.entry.route }
    {
        let Entered {
            marks,
            cell: _,
            route,
            entered: _,
        } = self;
        marks.end(route, is_left);
        LeftRoute { is_left, left: () }
    }
}

/// A route that the polling thread offered something to, and takes upon itself: its mark was cleared. It has no `Drop`:
/// whoever cleared the mark has to leave the route.
pub struct PolledRoute<'a, C, M> {
    /// The marks of the routes.
    pub marks: &'a M,
    /// The route's cell.
    pub cell: &'a C,
    /// The route.
    pub route: usize,
    polled: (),
}

/// Evidence that no further route was found to have that mark.
#[derive(Drop)]
pub struct NonePolled(());

/// Clears the mark of the next route that has one, from this one on. The error is evidence that none was found.
pub fn take_polled<'a, C, M: RouteMarks>(
    marks: &'a M,
    cells: &'a [C],
    from: usize,
) -> Result<PolledRoute<'a, C, M>, NonePolled>
    ensures cell { IfOk result (λ p. slice_get cells.now p.route ≡ Some p.cell.now) }
    ensures marks { IfOk result (λ p. p.marks.now ≡ marks.now) }
    ensures before { IfOk result (λ p. (r : ℕ) → from ≤ r → r < p.route → M.attended marks.now r) }
    ensures taken { IfOk result (λ p. M.taken_up marks.now p.route) }
    ensures none { IfErr result (λ _. (r : ℕ) → from ≤ r → r < length cells.now → M.attended marks.now r) }
{
    let route = marks.next_offered(from);
    let Some(polled) = cells.get(route) else {
        return Err(NonePolled(()));
    };
    marks.clear_offered(route);
    Ok(PolledRoute {
        marks,
        cell: polled,
        route,
        polled: (),
    })
}

impl<C, M: RouteMarks> PolledRoute<'_, C, M> {
    /// Leaves the route, to a worker if there is more to do.
    pub fn leave(self, is_left: bool) -> LeftRoute
        ensures left { result.is_left ≡ is_left }
        ensures attended { M.attended self.entry.marks.now self.entry.route }
        ensures marked { is_left ≡ true → M.left self.entry.marks.now self.entry.route }
    {
        let PolledRoute {
            marks,
            cell: _,
            route,
            polled: _,
        } = self;
        marks.end_offered(route, is_left);
        LeftRoute { is_left, left: () }
    }
}

/// Evidence that all routes that the polling thread offered something to were left to the workers.
#[derive(Drop)]
pub struct HandedOver {
    // the number of those whose inbox was marked as ready by that
    begun: u64,
}

/// As `Wakeups::hand_over`.
pub fn hand_over<M: RouteMarks>(marks: &M) -> HandedOver
    ensures { M.handed marks.now }
{
    HandedOver {
        begun: marks.hand_over_offered(),
    }
}

/// Evidence that the workers were told of a read of the polling thread.
#[derive(Drop)]
pub struct ReadTold {
    /// The number of datagrams that were read.
    pub datagrams: u32,
    handed: HandedOver,
}

/// As `Wakeups::read_ended`, after what was offered was left to the workers.
pub fn tell_read<M: RouteMarks>(marks: &M, datagrams: u32, handed: HandedOver) -> ReadTold
    ensures datagrams { result.datagrams ≡ datagrams }
    ensures notified { M.notified marks.now datagrams }
{
    marks.notify_of_read(datagrams, handed.begun);
    ReadTold { datagrams, handed }
}

/// Ticks that were offered to the first routes, of which the workers weren't told yet. It has no `Drop`: whoever offered them
/// has to tell.
pub struct TicksOffered {
    routes: usize,
}

/// After a tick was offered to each of these ends.
pub fn offered_to<E>(ends: &Vec<E>) -> TicksOffered
    ensures { result.routes ≡ length ends.now.items }
{
    TicksOffered { routes: ends.len() }
}

/// Evidence that the workers were told of ticks.
#[derive(Drop)]
pub struct TicksTold {
    /// The number of the first routes that were ticked.
    pub routes: usize,
    told: (),
}

impl TicksOffered {
    /// As `Wakeups::ticked`.
    pub fn tell<M: RunState>(self, wakeups: &M) -> TicksTold
        ensures routes { result.routes ≡ self.routes }
        ensures told { M.ticks_told wakeups.now self.routes }
    {
        let TicksOffered { routes } = self;
        wakeups.tell_ticks(routes);
        TicksTold { routes, told: () }
    }
}

/// Evidence that a flag was clear at the look with this number.
#[derive(Drop)]
pub struct NoNotice {
    /// The number of the look.
    pub look: u64,
    found: (),
}

/// Evidence that a flag was cleared by this call.
#[derive(Drop)]
pub struct FlagLowered(());

/// Clears a flag.
fn lower_flag<W: SharedWord>(flag: &W) -> FlagLowered
    requires { W.keeps 0 }
    ensures { W.written flag.now 0 }
{
    flag.write(0);
    FlagLowered(())
}

/// Clears a flag that is set; it may be set again at once. The error is evidence that it was clear at this look.
pub fn take_flag<W: SharedWord>(flag: &W, look: u64) -> Result<FlagLowered, NoNotice>
    requires { W.keeps 0 }
    ensures look { IfErr result (λ none. none.look ≡ look) }
    ensures set { IfOk result (λ _. WasSet W.had flag.now) }
    ensures taken { IfOk result (λ _. W.written flag.now 0) }
    ensures clear { IfErr result (λ _. W.had flag.now 0) }
{
    let noticed = flag.read();
    if noticed == 0 {
        Err(NoNotice { look, found: () })
    } else {
        Ok(lower_flag(flag))
    }
}

/// Evidence that a flag was set by this call.
#[derive(Drop)]
pub struct FlagRaised(());

/// Sets a flag.
pub fn raise_flag<W: SharedWord>(flag: &W) -> FlagRaised
    requires { W.keeps 1 }
    ensures { W.written flag.now 1 }
{
    flag.write(1);
    FlagRaised(())
}

/// Evidence that a route was marked by this call, in a set of marks of this type.
#[derive(Drop)]
pub struct Marked<S> {
    /// The route.
    pub route: usize,
    of: PhantomData<S>,
}

/// Evidence that a route had a mark, or is beyond the marks.
#[derive(Drop)]
pub struct MarkedBefore<S> {
    /// The route.
    pub route: usize,
    of: PhantomData<S>,
}

/// Marks a route. The error is evidence that it had the mark, or is beyond the marks.
pub fn mark<S: SharedMarks>(marks: &S, route: usize) -> Result<Marked<S>, MarkedBefore<S>>
    ensures marked { IfOk result (λ m. m.route ≡ route) }
    ensures before { IfErr result (λ m. m.route ≡ route) }
    ensures set { IfOk result (λ _. S.marked marks.now route) }
    ensures had { IfErr result (λ _. S.was_marked marks.now route) }
{
    if marks.mark(route) {
        Ok(Marked {
            route,
            of: PhantomData,
        })
    } else {
        Err(MarkedBefore {
            route,
            of: PhantomData,
        })
    }
}

/// Evidence that no route was marked, of some first ones, at the look with this number.
#[derive(Drop)]
pub struct NoneMarked<S> {
    /// The number of the look.
    pub look: u64,
    of: PhantomData<S>,
}

/// Clears the mark of the first route that has one, of this many. The error is evidence that none has at this look.
pub fn take_mark<S: SharedMarks>(
    marks: &S,
    routes: usize,
    look: u64,
) -> Result<usize, NoneMarked<S>>
    ensures some { IfOk result (λ route. route < routes) }
    ensures none { IfErr result (λ none. none.look ≡ look) }
    ensures cleared { IfOk result (λ route. S.cleared marks.now route) }
    ensures before { IfOk result (λ route. (r : ℕ) → r < route → S.was_clear marks.now r) }
    ensures clear { IfErr result (λ _. (r : ℕ) → r < routes → S.was_clear marks.now r) }
{
    let first = marks.next_marked(0);
    if first < routes {
        marks.unmark(first);
        Ok(first)
    } else {
        Err(NoneMarked {
            look,
            of: PhantomData,
        })
    }
}

/// Evidence that a reader found no further route, or no ends of it, at the look with this number.
#[derive(Drop)]
pub struct NoneAdded {
    /// The number of the look.
    pub look: u64,
    none: NoneSeated,
}

/// As `SeatReader::next_poller`. The error is evidence of this look.
pub fn next_poller<X: Attachment + Drop>(
    reader: &mut SeatReader<'_, X>,
    look: u64,
) -> Result<PollerEnds<X>, NoneAdded>
    ensures some { IfOk result (λ e. (n : CellIdentity) × (arrived reader.new ≡ arrived reader.old ++ n ∷ []) × (n.index ≡ length (arrived reader.old)) ×
        IsNewPoller n e.ingress e.drain × X.belongs n.terms n.index e.companion) }
    ensures none { IfErr result (λ _. reader.new ≡ reader.old) }
    ensures look { IfErr result (λ none. none.look ≡ look) }
    ensures places { places_of reader.new ≡ places_of reader.old }
{
    match reader.next_poller() {
        Ok(ends) => Ok(ends),
        Err(none) => Err(NoneAdded { look, none }),
    }
}

/// A route that the watcher requested to close.
#[derive(Drop)]
pub struct CloseRequest<A: Answers> {
    /// The route's index.
    pub route: usize,
    of: PhantomData<A>,
    ghost known: { ∥ A.answered (Closes route) ∥₁ },
}

/// Evidence that a route's word stated no route, of some first ones, at the look with this number.
#[derive(Drop)]
pub struct NoneStated {
    /// The number of the look.
    pub look: u64,
    found: (),
}

/// The route that a word states, if it is among this many. The error is evidence that it states none at this look.
pub fn request_in<A: Answers, W: SharedWord>(
    word: &W,
    routes: usize,
    look: u64,
) -> Result<CloseRequest<A>, NoneStated>
    requires { (n route : ℕ) → W.keeps n → n ≡ suc route → A.answered (Closes route) }
    ensures some { IfOk result (λ request. request.route < routes) }
    ensures none { IfErr result (λ none. none.look ≡ look) }
    ensures stated { IfOk result (λ request. W.had word.now (suc request.route)) }
    ensures unstated { IfErr result (λ _. StatedNone W.had word.now routes) }
{
    let stated = word.read();
    if stated == 0 {
        return Err(NoneStated { look, found: () });
    }
    let route = (stated - 1) as usize;
    if route < routes {
        Ok(CloseRequest {
            route,
            of: PhantomData,
        })
    } else {
        Err(NoneStated { look, found: () })
    }
}

/// The order of a watcher, as its words stated it.
#[derive(Drop)]
pub struct OrderRead {
    /// The order.
    pub order: Order,
    read: (),
}

// The order that these numbers of the two words state.
fn order_of<A: Answers>(ends: u64, closes: u64) -> Order
    requires ends { ends ≢ 0 → A.answered RunEnds }
    requires closes { closes ≢ 0 → A.answered AllClose }
    ensures known { IsOrdered A.answered result }
    ensures order { result ≡ order_in ends closes }
{
    if ends == 0 {
        if closes == 0 {
            Order::GoOn
        } else {
            Order::CloseAll
        }
    } else {
        Order::End
    }
}

/// Reads the order of a watcher from its words. It is to close all, or to end, only if the watcher gave that order.
pub fn read_order<A: Answers, E: SharedWord, C: SharedWord>(ends: &E, closes: &C) -> OrderRead
    requires ends { (n : ℕ) → E.keeps n → n ≢ 0 → A.answered RunEnds }
    requires closes { (n : ℕ) → C.keeps n → n ≢ 0 → A.answered AllClose }
    ensures known { IsOrdered A.answered result.order }
    ensures read { IsRead E.had C.had ends.now closes.now result.order }
{
    let ends = ends.read();
    let closes = closes.read();
    OrderRead {
        order: order_of::<A>(ends, closes),
        read: (),
    }
}

/// Evidence that a word of this type was written.
#[derive(Drop)]
pub struct WordWritten<W> {
    /// The number that it got.
    pub number: u64,
    of: PhantomData<W>,
}

/// Writes a word, of which its rule's fact is known.
pub fn write_word<W: SharedWord>(word: &W, number: u64) -> WordWritten<W>
    requires { W.keeps number }
    ensures number { result.number ≡ number }
    ensures written { W.written word.now number }
{
    word.write(number);
    WordWritten {
        number,
        of: PhantomData,
    }
}

/// A mark of a route that was set once the route's word was written.
#[derive(Drop)]
pub struct MarkedAfter<W, S> {
    /// The word.
    pub word: WordWritten<W>,
    /// Evidence that the mark was set by this call, or had been.
    pub marked: Result<Marked<S>, MarkedBefore<S>>,
    after: (),
}

/// Marks a route, once its word was written.
pub fn mark_after<W, S: SharedMarks>(
    marks: &S,
    route: usize,
    word: WordWritten<W>,
) -> MarkedAfter<W, S>
    ensures word { result.word ≡ word }
    ensures marked { IfOk result.marked (λ m. m.route ≡ route) }
    ensures before { IfErr result.marked (λ m. m.route ≡ route) }
    ensures set { IfOk result.marked (λ _. S.marked marks.now route) }
    ensures had { IfErr result.marked (λ _. S.was_marked marks.now route) }
{
    MarkedAfter {
        word,
        marked: mark(marks, route),
        after: (),
    }
}

/// Evidence that a queue had no place.
#[derive(Drop)]
pub struct NoPlace(());

/// Evidence that a value was put into a queue.
pub struct WasPut<T> {
    value: Snapshot<T>,
}

impl<T> Drop for WasPut<T> {
    fn drop(self) {
        let Self { value: _ } = self;
    }
}

/// Whether a queue has a place. The error is evidence that there was none.
pub fn look_for_place<T, Q: SharedQueue<T>>(queue: &Q) -> Result<(), NoPlace>
    ensures place { IfOk result (λ _. Q.had_place queue.now) }
    ensures full { IfErr result (λ _. Q.was_full queue.now) }
{
    if queue.has_no_place() {
        Err(NoPlace(()))
    } else {
        Ok(())
    }
}

/// Puts a value into a queue. The error is evidence that there was no place; then the value is dropped.
pub fn put<R: Wait, T: Drop, Q: SharedQueue<T>>(
    rt: &R,
    queue: &Q,
    value: T,
) -> Result<WasPut<T>, NoPlace>
    ensures value { IfOk result (λ put. put.value.value ≡ value) }
    ensures put { IfOk result (λ _. Q.was_put queue.now value) }
    ensures full { IfErr result (λ _. Q.was_full queue.now) }
{
    let was = Snapshot::of(&value);
    match queue.put(rt, value) {
        Ok(()) => Ok(WasPut { value: was }),
        Err(_) => Err(NoPlace(())),
    }
}

// Takes the value out of a queue that has waited longest. It may be of any type, so that no value is dropped.
fn take_one<R: Wait, T, Q: SharedQueue<T>>(rt: &R, queue: &Q) -> Result<T, NothingWaits>
    ensures taken { IfOk result (λ value. Q.was_taken queue.now value) }
    ensures none { IfErr result (λ _. Q.was_empty queue.now) }
{
    match queue.take(rt) {
        Some(value) => Ok(value),
        None => Err(NothingWaits(())),
    }
}

/// Takes the refusal out of a queue that has waited longest. The error is evidence that none waits.
pub fn take_refusal<R: Wait, Q: SharedQueue<Refusal>>(
    rt: &R,
    queue: &Q,
) -> Result<TakenRefusal, NothingWaits>
    ensures taken { IfOk result (λ taken. Q.was_taken queue.now taken.refusal) }
    ensures none { IfErr result (λ _. Q.was_empty queue.now) }
{
    let refusal = take_one(rt, queue)?;
    Ok(TakenRefusal { refusal })
}

/// Evidence that nothing waited in a queue.
#[derive(Drop)]
pub struct NothingWaits(());

/// A refusal that was taken out of its queue. It has no `Drop`: whoever took it has to report it.
pub struct TakenRefusal {
    refusal: Refusal,
}

impl TakenRefusal {
    /// Reports it to the watcher, once.
    pub fn report<T: Watch>(self, watch: &mut T)
        ensures told { T.told self.refusal }
        ensures recorded { T.refusals watch.new ≡ with_told (T.refusals watch.old) self.refusal }
    {
        let TakenRefusal { refusal } = self;
        watch.refused(&refusal);
    }
}

/// Evidence that no outbox had the hint of a reply.
#[derive(Drop)]
pub struct OutboxesRest(());

/// Evidence that an outbox had one.
#[derive(Drop)]
pub struct OutboxHasHint(());

/// What a look at the routes found.
#[derive(Drop)]
pub struct RoutesSeen {
    /// All were quiet. False if none was looked at.
    pub all_quiet: bool,
}

/// What a look at the routes found, and one at the outboxes after it.
#[derive(Drop)]
pub struct OutboxesSeen {
    /// The routes.
    pub routes: RoutesSeen,
    /// Whether no outbox had the hint of a reply.
    pub outboxes: Result<OutboxesRest, OutboxHasHint>,
    after: (),
}

// As `Wakeups::any_outbox_ready`: the error is evidence that it returned true.
fn check_outboxes<M: RunState>(wakeups: &M) -> Result<OutboxesRest, OutboxHasHint>
    ensures rest { IfOk result (λ _. M.outboxes_rest wakeups.now) }
    ensures hint { IfErr result (λ _. M.has_ready_outbox wakeups.now) }
{
    if wakeups.is_an_outbox_ready() {
        Err(OutboxHasHint(()))
    } else {
        Ok(OutboxesRest(()))
    }
}

/// Looks at the outboxes, once the routes were looked at: a reply that one of them has moved since is in an outbox then.
pub fn look_at_outboxes<M: RunState>(wakeups: &M, routes: RoutesSeen) -> OutboxesSeen
    ensures routes { result.routes ≡ routes }
    ensures rest { IfOk result.outboxes (λ _. M.outboxes_rest wakeups.now) }
    ensures hint { IfErr result.outboxes (λ _. M.has_ready_outbox wakeups.now) }
{
    OutboxesSeen {
        routes,
        outboxes: check_outboxes(wakeups),
        after: (),
    }
}

/// Evidence that a flag was clear.
#[derive(Drop)]
pub struct FlagClear(());

/// Evidence that a flag was set.
#[derive(Drop)]
pub struct FlagSet(());

/// Reads a flag, and changes nothing.
pub fn read_flag<W: SharedWord>(flag: &W) -> Result<FlagSet, FlagClear>
    ensures set { IfOk result (λ _. WasSet W.had flag.now) }
    ensures clear { IfErr result (λ _. W.had flag.now 0) }
{
    let number = flag.read();
    if number == 0 {
        Err(FlagClear(()))
    } else {
        Ok(FlagSet(()))
    }
}

/// Evidence that counts were written, and that a flag was cleared after that.
#[derive(Drop)]
pub struct CountsLeft<N: Drop> {
    /// What was written.
    pub written: N,
    cleared: FlagLowered,
}

/// Clears a flag, once counts have been written.
pub fn clear_after<W: SharedWord, N: Drop>(flag: &W, written: N) -> CountsLeft<N>
    requires { W.keeps 0 }
    ensures written { result.written ≡ written }
    ensures cleared { W.written flag.now 0 }
{
    CountsLeft {
        written,
        cleared: lower_flag(flag),
    }
}

/// Counts as they were read. They have no `Drop`: whoever read them has to set their flag.
pub struct CountsRead<N> {
    numbers: N,
}

/// Counts that were read before their flag was set.
#[derive(Drop)]
pub struct CountsTaken<N: Drop> {
    /// The counts.
    pub numbers: N,
    raised: FlagRaised,
}

impl<N: Drop> CountsRead<N> {
    /// These counts, whose flag has to be set.
    pub fn of(numbers: N) -> CountsRead<N>
        ensures { result.numbers ≡ numbers }
    {
        CountsRead { numbers }
    }
}

/// Sets a flag, once counts have been read.
pub fn raise_after<W: SharedWord, N: Drop>(flag: &W, read: CountsRead<N>) -> CountsTaken<N>
    requires { W.keeps 1 }
    ensures numbers { result.numbers ≡ read.numbers }
    ensures raised { W.written flag.now 1 }
{
    let CountsRead { numbers } = read;
    CountsTaken {
        numbers,
        raised: raise_flag(flag),
    }
}

/// Evidence that one was added to a word of this type.
#[derive(Drop)]
pub struct OneAdded<W> {
    of: PhantomData<W>,
}

/// Adds one to a word.
pub fn add_one<W: SharedWord>(word: &W) -> OneAdded<W>
    requires { StaysUnderAdd W.keeps 1 }
    ensures { W.counted word.now }
{
    word.add_one();
    OneAdded { of: PhantomData }
}

/// The place of the polling thread's gate. Code that takes it out is generic over this trait: what is known once it was put
/// back it can show only by the call.
pub trait GatePlace {
    ghost use Rattle.std.specs.Prelude.{Option};

    /// The gate.
    type Gate: Drop;

    /// What is known once this gate was put here.
    ghost was_put: { Self → Self.Gate → Type 0 };

    /// Takes the gate out. `None` if there is none.
    fn take_out(&self) -> Option<Self::Gate>;

    /// Puts a gate here.
    fn put_in(&self, gate: Self::Gate)
        ensures { was_put self.now gate };
}

impl<G: Drop> GatePlace for Cell<Option<G>> {
    type Gate = G;

    ghost was_put = { λ _ _. Unit {0} };

    fn take_out(&self) -> Option<G> {
        self.replace(None)
    }

    fn put_in(&self, gate: G) {
        self.set(Some(gate));
    }
}

/// A gate that was taken out of its place. It has no `Drop`: whoever took it out has to put it back.
pub struct TakenGate<G> {
    /// The gate.
    pub gate: G,
}

/// Evidence that a gate was put back into its place.
#[derive(Drop)]
pub struct GateReturned(());

/// Takes a gate out of its place. `None` if there is none.
pub fn take_gate<P: GatePlace>(place: &P) -> Option<TakenGate<P::Gate>> {
    match place.take_out() {
        Some(gate) => Some(TakenGate { gate }),
        None => None,
    }
}

/// Puts a gate back into its place.
pub fn return_gate<P: GatePlace>(place: &P, taken: TakenGate<P::Gate>) -> GateReturned
    ensures { P.was_put place.now taken.gate }
{
    let TakenGate { gate } = taken;
    place.put_in(gate);
    GateReturned(())
}

/// The count of the threads that a run awaits. Code that opens it is generic over this trait: what is known once a call has
/// returned it can show only by the call.
pub trait AwaitsThreads {
    /// What is known once the watching thread is awaited too.
    ghost awaits_watcher: { Self → Type 0 };

    /// As `Wakeups::await_watcher`.
    fn await_one_more(&self)
        ensures { awaits_watcher self.now };
}

impl AwaitsThreads for Wakeups {
    ghost awaits_watcher = { λ _. Unit {0} };

    fn await_one_more(&self) {
        self.await_watcher();
    }
}

/// Evidence that the watching thread is awaited too.
#[derive(Drop)]
pub struct WatcherAwaited(());

/// As `Wakeups::await_watcher`.
pub fn await_watcher<M: AwaitsThreads>(wakeups: &M) -> WatcherAwaited
    ensures { M.awaits_watcher wakeups.now }
{
    wakeups.await_one_more();
    WatcherAwaited(())
}

/// Evidence that a route was put into a place.
#[derive(Drop)]
pub struct Hosted(());

/// Evidence that a place had a route.
#[derive(Drop)]
pub struct Occupied(());

/// A place that a route can be put into. Code that opens routes while threads run is generic over this trait: what is known
/// once a call has returned it can show only by the call.
pub trait RouteHost {
    /// A route that can be put here.
    type Seat: Drop;

    /// What is known once a route was put here.
    ghost hosts: { Self → Self.Seat → Type 0 };

    /// What is known once the place had a route.
    ghost has_route: { Self → Type 0 };

    /// Puts a route here. The error is evidence that the place has one already; then the new one is dropped.
    fn host(&self, seat: Self::Seat) -> Result<Hosted, Occupied>
        ensures hosted { IfOk result (λ _. hosts self.now seat) }
        ensures occupied { IfErr result (λ _. has_route self.now) };
}

impl<X: Attachment + Drop> RouteHost for Place<X> {
    type Seat = Seat<X>;

    ghost hosts = { λ _ _. Unit {0} };

    ghost has_route = { λ _. Unit {0} };

    fn host(&self, seat: Seat<X>) -> Result<Hosted, Occupied> {
        match self.put(seat) {
            Ok(_) => Ok(Hosted(())),
            Err(_) => Err(Occupied(())),
        }
    }
}
