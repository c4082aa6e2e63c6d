//! What the threads of a run share besides the routes: which routes may have work, how many threads run, and whether the
//! run is over. All of it is hints, and no contract of another crate depends on them: a lost one delays work and never loses
//! an item.
//!
//! Each route has four marks, a bit of an `AtomicBitSet` each: `inbox_ready`, `in_service`, `outbox_ready` and
//! `polled`. docs/ARCHITECTURE.md, "The threads of a run", has a table of them: what each means, who sets, clears and
//! reads it, and what a lost one costs.
//!
//! A worker sleeps in one of four ways, for a time of `pacing.rt` at most, and a notification ends each:
//!
//! - `nap`, after a round that found nothing to do: for `NAP_US`.
//! - `rest`, after another such round that follows a nap, a doze or a rest: for `SLEEP_US`, or for `NAP_US` if an
//!   inbox is ready that it couldn't serve.
//! - `doze`, after a thin round, which found a little to do at each of many routes: for `DOZE_PER_ROUTE_US` for each of
//!   them, and at least `NAP_US`.
//! - `doze` while another worker dozes, in reserve, after a thin round too: for `SLEEP_US`.
//!
//! One worker is woken by each of these:
//!
//! - `ticked`, after each tick, if no worker dozes.
//! - `read_ended`, for what the polling thread leaves to the workers, if the round read `DATAGRAMS_FOR_WORKERS` or more for
//!   few routes, or if it read any and all workers rest or are in reserve.
//! - `wake_resting`, if a worker rests: by the polling thread that leaves something of its own turns, and by a worker
//!   in whose round `MANY_REPLIES` were moved if a further inbox is ready.
//! - `wake_reserve`, if a worker is in reserve: by a worker after such a round, if that wasn't thin.

ghost use Rattle.std.specs.Prelude.{◌≡◌, ℕ, ◌<◌, ◌≤◌, IfOk, IsTrue};
ghost use Rattle.srt_wakeups.specs.Marks.{routes_of, IsNextFrom};

use crate::bit_set::AtomicBitSet;
use crate::notifier::Notifier;
use crate::pacing::{GATHER_SLEEPS, NAP_US, SLEEP_US, all_rest, doze_us, rest_us, wakes_worker};
use std::alloc::{AllocError, Global};
use std::sync::Wait;
use std::sync::atomic::{AtomicBool, AtomicU64, Ordering};
use std::time::Duration;

/// What the threads of a run share besides the routes. Every method may be called from any thread, but for those that
/// say otherwise.
///
/// What other threads set, clear and count at any time no clause can state. So the clauses state which routes an answer may
/// name, and how many it may count; a call that returns nothing has none.
#[derive(Drop)]
pub struct Wakeups {
    // the marks of the routes
    inbox_ready: AtomicBitSet,
    in_service: AtomicBitSet,
    outbox_ready: AtomicBitSet,
    polled: AtomicBitSet,
    // wakes workers
    work: Notifier,
    // wakes the polling thread while it waits in `gather` for the others
    arrivals: Notifier,
    // the number of workers, without the ticking thread and the watching one
    workers: u64,
    // the number of workers in `rest`
    resting: AtomicU64,
    // a worker is in `doze`, and looks again by itself
    dozing: AtomicBool,
    // the number of workers that are in reserve meanwhile
    reserve: AtomicU64,
    // the number of threads that have not arrived yet, of the ticking thread, the workers, and the watching thread if there
    // is one
    awaited: AtomicU64,
    // the run is over
    done: AtomicBool,
}

impl Wakeups {
    ghost use Rattle.srt_wakeups.specs.Marks.{IsFor, IsAmong, IsNextAmong};

    /// For this many routes and workers. Allocates four marks a route; an error means that memory was refused.
    pub fn open(alloc: Global, routes: usize, workers: usize) -> Result<Wakeups, AllocError>
        ensures { IfOk result (λ wakeups. IsFor routes workers wakeups) }
    {
        Ok(Wakeups {
            inbox_ready: AtomicBitSet::open(alloc, routes)?,
            in_service: AtomicBitSet::open(alloc, routes)?,
            outbox_ready: AtomicBitSet::open(alloc, routes)?,
            polled: AtomicBitSet::open(alloc, routes)?,
            work: Notifier::new(),
            arrivals: Notifier::new(),
            workers: workers as u64,
            resting: AtomicU64::new(0),
            dozing: AtomicBool::new(false),
            reserve: AtomicU64::new(0),
            awaited: AtomicU64::new((workers as u64).saturating_add(1)),
            done: AtomicBool::new(false),
        })
    }

    /// A watching thread is awaited too. No clause states what it writes: the library states nothing of an atomic.
    pub fn await_watcher(&self) {
        self.awaited.fetch_add(1, Ordering::SeqCst);
    }

    /// Counts the calling thread as running. Each worker, the ticking thread and the watching one call it once, first. No
    /// clause states what it writes: the library states nothing of an atomic.
    pub fn arrive(&self) {
        self.awaited.fetch_sub(1, Ordering::SeqCst);
        self.arrivals.notify_all();
    }

    /// Waits until the ticking thread, all workers and the watching thread, if there is one, have arrived. False if one
    /// could not be started, or if they haven't arrived after ten seconds or more. No clause states what it returns: other
    /// threads wrote it.
    pub fn gather<R: Wait>(&self, rt: &R) -> bool {
        for _ in 0..GATHER_SLEEPS {
            let seen = self.arrivals.notifications();
            if self.is_done() {
                return false;
            }
            if self.awaited.load(Ordering::SeqCst) == 0 {
                return true;
            }
            self.arrivals
                .sleep(rt, seen, Duration::from_micros(SLEEP_US));
        }
        false
    }

    /// Ends the run: all threads see it at their next look, and those that sleep are woken. No clause states what it
    /// writes: the library states nothing of an atomic.
    pub fn finish(&self) {
        self.done.store(true, Ordering::SeqCst);
        self.work.notify_all();
        self.arrivals.notify_all();
    }

    /// Whether the run is over. No clause states what it returns: other threads wrote it.
    pub fn is_done(&self) -> bool {
        self.done.load(Ordering::SeqCst)
    }

    /// The number of notifications of workers so far. A worker reads it before it looks for work, and hands it to `nap`,
    /// `doze` or `rest`, which return at once if there was one since. No clause states what it returns: other threads wrote
    /// it.
    pub fn notifications(&self) -> u64 {
        self.work.notifications()
    }

    /// The first route from this one on whose inbox may have an item, or that has more to do; the number of routes if
    /// there is none.
    pub fn next_inbox_ready(&self, route: usize) -> usize
        ensures { IsNextAmong self.now route result }
    {
        self.inbox_ready.next_from(route)
    }

    /// The calling worker begins to serve the route: sets `in_service` and clears `inbox_ready`. False, with no change,
    /// if another worker serves it.
    pub fn enter(&self, route: usize) -> bool
        ensures { IsTrue result → IsAmong self.now route }
    {
        let entered = self.in_service.set(route);
        if entered {
            self.inbox_ready.clear(route);
        }
        entered
    }

    /// The worker that entered the route leaves it. If `is_left`, there is more to do: sets `inbox_ready` again. No clause
    /// states what it writes: the library states nothing of an atomic.
    pub fn leave(&self, route: usize, is_left: bool) {
        self.in_service.clear(route);
        if is_left {
            self.set_inbox_ready(route);
        }
    }

    /// The route's inbox may have an item, or there is more to do. True if the mark was clear.
    pub fn set_inbox_ready(&self, route: usize) -> bool
        ensures { IsTrue result → IsAmong self.now route }
    {
        self.inbox_ready.set(route)
    }

    /// A reply was put into the outbox of the route. No clause states what it writes: the library states nothing of an
    /// atomic.
    pub fn set_outbox_ready(&self, route: usize) {
        self.outbox_ready.set(route);
    }

    /// Whether the outbox of the route may have a reply. Clears the mark.
    pub fn take_outbox_ready(&self, route: usize) -> bool
        ensures { IsTrue result → IsAmong self.now route }
    {
        let is_ready = self.outbox_ready.is_set(route);
        if is_ready {
            self.outbox_ready.clear(route);
        }
        is_ready
    }

    /// The first route from this one on whose outbox may have a reply; the number of routes if there is none.
    pub fn next_outbox_ready(&self, route: usize) -> usize
        ensures { IsNextAmong self.now route result }
    {
        self.outbox_ready.next_from(route)
    }

    /// Whether the outbox of any route may have a reply. Clears no mark.
    pub fn any_outbox_ready(&self) -> bool
        ensures { IsTrue result → IsAmong self.now 0 }
    {
        self.outbox_ready.any()
    }

    /// The inbox of the route accepted something from the poller. Only the polling thread calls this. No clause states what
    /// it writes: the library states nothing of an atomic.
    pub fn set_polled(&self, route: usize) {
        self.polled.set_alone(route);
    }

    /// The polling thread serves the route itself, or makes its inbox ready. Only the polling thread calls this. No clause
    /// states what it writes: the library states nothing of an atomic.
    pub fn clear_polled(&self, route: usize) {
        self.polled.clear_alone(route);
    }

    /// The first route from this one on whose inbox accepted something from the poller that nobody was asked to serve
    /// yet; the number of routes if there is none.
    pub fn next_polled(&self, route: usize) -> usize
        ensures { IsNextAmong self.now route result }
    {
        self.polled.next_from(route)
    }

    /// The number of such routes.
    pub fn count_polled(&self) -> u64
        ensures { (routes workers : ℕ) → IsFor routes workers self.now → result ≤ routes }
    {
        self.polled.count()
    }

    /// Leaves all `polled` routes to the workers: sets `inbox_ready` of each. Returns the number of those where it was
    /// clear. Only the polling thread calls this.
    pub fn hand_over(&self) -> u64
        ensures { (routes workers : ℕ) → IsFor routes workers self.now → result ≤ routes }
    {
        let mut begun = 0u64;
        let mut route = self.next_polled(0);
        for _ in 0..self.polled.len() {
            if route >= self.polled.len() {
                return begun;
            }
            self.clear_polled(route);
            if self.set_inbox_ready(route) {
                begun = begun.saturating_add(1);
            }
            route = self.next_polled(route);
        }
        begun
    }

    /// Wakes a worker, if one is in `rest`. No clause states whom it wakes.
    pub fn wake_resting(&self) {
        if self.resting.load(Ordering::SeqCst) > 0 {
            self.work.notify_one();
        }
    }

    /// Wakes a worker, if one is in reserve. No clause states whom it wakes.
    pub fn wake_reserve(&self) {
        if self.reserve.load(Ordering::SeqCst) > 0 {
            self.work.notify_one();
        }
    }

    /// The first `routes` routes were ticked, all that are there: sets `inbox_ready` of each, and wakes a worker, unless
    /// one is in `doze`. No clause states what it writes: the library states nothing of an atomic.
    pub fn ticked(&self, routes: usize) {
        self.inbox_ready.set_first(routes);
        if !self.dozing.load(Ordering::SeqCst) {
            self.work.notify_one();
        }
    }

    /// Wakes a worker after a round of the poller that read this many datagrams and set this many `inbox_ready` marks that
    /// were clear, if it read many for few routes, or if it read any and no worker is awake or dozes. No clause states whom
    /// it wakes.
    pub fn read_ended(&self, datagrams: u32, begun: u64) {
        let resting = self.resting.load(Ordering::SeqCst);
        let reserve = self.reserve.load(Ordering::SeqCst);
        if wakes_worker(datagrams, begun, all_rest(resting, reserve, self.workers)) {
            self.work.notify_one();
        }
    }

    /// Sleeps until a notification, for at most `NAP_US`. No clause states how long it sleeps.
    pub fn nap<R: Wait>(&self, rt: &R, seen: u64) {
        self.work.sleep(rt, seen, Duration::from_micros(NAP_US));
    }

    /// Sleeps until a notification, for at most max(`NAP_US`, `DOZE_PER_ROUTE_US` x `routes`). If another worker already
    /// does, this one waits in reserve instead, for at most `SLEEP_US`: one worker is enough for a little work at each of
    /// many routes. No clause states how long it sleeps.
    pub fn doze<R: Wait>(&self, rt: &R, seen: u64, routes: u32) {
        if self.dozing.swap(true, Ordering::SeqCst) {
            self.rest_in_reserve(rt, seen);
        } else {
            self.work
                .sleep(rt, seen, Duration::from_micros(doze_us(routes)));
            self.dozing.store(false, Ordering::SeqCst);
        }
    }

    // Sleeps until a notification, for at most `SLEEP_US`.
    fn rest_in_reserve<R: Wait>(&self, rt: &R, seen: u64) {
        self.reserve.fetch_add(1, Ordering::SeqCst);
        if !self.is_done() {
            self.work.sleep(rt, seen, Duration::from_micros(SLEEP_US));
        }
        self.reserve.fetch_sub(1, Ordering::SeqCst);
    }

    /// Sleeps until a notification, for at most `SLEEP_US`; at most `NAP_US` if an inbox is ready that this worker could
    /// not serve. No clause states how long it sleeps.
    pub fn rest<R: Wait>(&self, rt: &R, seen: u64) {
        self.resting.fetch_add(1, Ordering::SeqCst);
        let most_us = rest_us(self.inbox_ready.any());
        if !self.is_done() {
            self.work.sleep(rt, seen, Duration::from_micros(most_us));
        }
        self.resting.fetch_sub(1, Ordering::SeqCst);
    }
}

#[cfg(test)]
mod tests;
