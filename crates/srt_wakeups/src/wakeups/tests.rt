//! Random steps at `Wakeups`, beside a plain program that says which routes have which marks, what each call returns, and
//! when a worker must be woken. One thread makes them all: it counts workers as asleep as `rest` and `doze` do, and finds
//! by the count of notifications whether one was woken. Threads that really sleep come after that.

use crate::wakeups::Wakeups;
use srt_samples::Dice;
use std::alloc::{AllocError, Global};
use std::process::Abort;
use std::sync::Wait;
use std::sync::atomic::{AtomicU64, Ordering};
use std::test::Fail;
use std::thread;
use std::thread::{Threads, join};
use std::time::{Clock, Instant};

/// Three words of marks, the last one not full.
const ROUTES: usize = 130;

/// Routes and two indexes that are no route's.
const INDEXES: u32 = 132;

const WORKERS: u64 = 3;

const STEPS: u32 = 100_000;

/// Returns the index of a route, or one that is none.
fn random_index(dice: &mut Dice) -> usize {
    dice.below(INDEXES) as usize
}

/// A flag for each route.
#[derive(Drop)]
struct Flags {
    flags: Vec<bool>,
}

impl Flags {
    fn none(alloc: Global) -> Result<Flags, AllocError> {
        Ok(Flags {
            flags: vec![in alloc; false; ROUTES]?,
        })
    }

    fn has(&self, route: usize) -> bool {
        match self.flags.get(route) {
            Some(flag) => *flag,
            None => false,
        }
    }

    /// Sets the route's flag, if there is such a route. True if it wasn't set.
    fn put(&mut self, route: usize) -> bool {
        match self.flags.get_mut(route) {
            Some(flag) => {
                let was = *flag;
                *flag = true;
                !was
            }
            None => false,
        }
    }

    fn take(&mut self, route: usize) {
        if let Some(flag) = self.flags.get_mut(route) {
            *flag = false;
        }
    }

    /// Sets the flags of the first `count` routes.
    fn put_first(&mut self, count: usize) {
        for route in 0..count {
            self.put(route);
        }
    }

    fn first_from(&self, route: usize) -> usize {
        for at in route..self.flags.len() {
            if self.has(at) {
                return at;
            }
        }
        self.flags.len()
    }

    fn count(&self) -> u64 {
        let mut count = 0u64;
        for flag in &self.flags {
            if *flag {
                count = count.saturating_add(1);
            }
        }
        count
    }
}

/// The wake-ups, and the plain program beside them.
#[derive(Drop)]
struct Both {
    wakeups: Wakeups,
    dice: Dice,
    inbox_ready: Flags,
    in_service: Flags,
    outbox_ready: Flags,
    polled: Flags,
    resting: u64,
    in_reserve: u64,
    is_dozing: bool,
}

impl Both {
    fn open(alloc: Global, seed: u64) -> Result<Both, AllocError> {
        Ok(Both {
            wakeups: Wakeups::open(alloc, ROUTES, WORKERS as usize)?,
            dice: Dice::new(seed),
            inbox_ready: Flags::none(alloc)?,
            in_service: Flags::none(alloc)?,
            outbox_ready: Flags::none(alloc)?,
            polled: Flags::none(alloc)?,
            resting: 0,
            in_reserve: 0,
            is_dozing: false,
        })
    }

    /// The number of workers that are awake.
    fn awake(&self) -> u64 {
        let asleep = self.resting.saturating_add(self.in_reserve);
        WORKERS
            .saturating_sub(asleep)
            .saturating_sub(u64::from(self.is_dozing))
    }

    /// A worker that is awake falls asleep, if there is one.
    fn fall_asleep(&mut self) {
        if self.awake() == 0 {
            return;
        }
        if self.dice.below(2) == 0 {
            self.resting = self.resting.saturating_add(1);
            self.wakeups.resting.store(self.resting, Ordering::SeqCst);
        } else if self.is_dozing {
            self.in_reserve = self.in_reserve.saturating_add(1);
            self.wakeups
                .reserve
                .store(self.in_reserve, Ordering::SeqCst);
        } else {
            self.is_dozing = true;
            self.wakeups.dozing.store(true, Ordering::SeqCst);
        }
    }

    /// A worker that sleeps wakes, if there is one.
    fn wake(&mut self) {
        match self.dice.below(3) {
            0 => {
                self.resting = self.resting.saturating_sub(1);
                self.wakeups.resting.store(self.resting, Ordering::SeqCst);
            }
            1 => {
                self.in_reserve = self.in_reserve.saturating_sub(1);
                self.wakeups
                    .reserve
                    .store(self.in_reserve, Ordering::SeqCst);
            }
            _ => {
                self.is_dozing = false;
                self.wakeups.dozing.store(false, Ordering::SeqCst);
            }
        }
    }

    /// Whether a round that read this many datagrams and set this many `inbox_ready` marks that were clear has to wake a worker.
    fn must_wake(&self, datagrams: u32, begun: u64) -> bool {
        let all_wait = self.resting.saturating_add(self.in_reserve) == WORKERS;
        let are_for_few = begun.saturating_mul(8) <= u64::from(datagrams);
        (datagrams >= 64 && are_for_few) || (datagrams >= 1 && all_wait)
    }

    /// The poller's round is over: the inboxes of all `polled` routes are ready. Whether a worker must be woken.
    fn end_read(&mut self, rt: &impl Abort) -> bool {
        let mut begun = 0u64;
        for route in 0..ROUTES {
            if self.polled.has(route) {
                self.polled.take(route);
                if self.inbox_ready.put(route) {
                    begun = begun.saturating_add(1);
                }
            }
        }
        assert_eq!(rt; self.wakeups.hand_over(), begun);
        let datagrams = self.dice.below(130);
        self.wakeups.read_ended(datagrams, begun);
        self.must_wake(datagrams, begun)
    }

    /// The poller offers to a route, serves it itself, or makes its inbox ready.
    fn offer(&mut self, rt: &impl Abort) {
        let route = random_index(&mut self.dice);
        match self.dice.below(4) {
            0 => {
                self.wakeups.clear_polled(route);
                self.polled.take(route);
            }
            1 => assert_eq!(rt;
                self.wakeups.set_inbox_ready(route),
                self.inbox_ready.put(route)
            ),
            _ => {
                self.wakeups.set_polled(route);
                self.polled.put(route);
            }
        }
    }

    /// A worker enters a route or leaves it.
    fn visit(&mut self, rt: &impl Abort) {
        let route = random_index(&mut self.dice);
        if self.dice.below(2) == 0 {
            let is_entered = self.in_service.put(route);
            if is_entered {
                self.inbox_ready.take(route);
            }
            assert_eq!(rt; self.wakeups.enter(route), is_entered);
        } else {
            let is_left = self.dice.below(2) == 0;
            self.in_service.take(route);
            if is_left {
                self.inbox_ready.put(route);
            }
            self.wakeups.leave(route, is_left);
        }
    }

    /// A reply is put into an outbox, or the poller asks whether there is one.
    fn tell(&mut self, rt: &impl Abort) {
        let route = random_index(&mut self.dice);
        if self.dice.below(2) == 0 {
            self.outbox_ready.put(route);
            self.wakeups.set_outbox_ready(route);
        } else {
            assert_eq!(rt;
                self.wakeups.take_outbox_ready(route),
                self.outbox_ready.has(route)
            );
            self.outbox_ready.take(route);
        }
    }

    /// One random step. Whether it must wake a worker.
    fn step(&mut self, rt: &impl Abort) -> bool {
        match self.dice.below(64) {
            0 => {
                let count = random_index(&mut self.dice);
                self.inbox_ready.put_first(count);
                self.wakeups.ticked(count);
                !self.is_dozing
            }
            1..4 => self.end_read(rt),
            4..7 => {
                self.wakeups.wake_resting();
                self.resting > 0
            }
            7..10 => {
                self.wakeups.wake_reserve();
                self.in_reserve > 0
            }
            10..16 => {
                self.fall_asleep();
                false
            }
            16..20 => {
                self.wake();
                false
            }
            20..36 => {
                self.offer(rt);
                false
            }
            36..56 => {
                self.visit(rt);
                false
            }
            _ => {
                self.tell(rt);
                false
            }
        }
    }

    /// Asserts that the wake-ups have the plain program's marks, from some index on.
    fn compare(&mut self, rt: &impl Abort) {
        let from = random_index(&mut self.dice);
        assert_eq!(rt;
            self.wakeups.next_inbox_ready(from),
            self.inbox_ready.first_from(from)
        );
        assert_eq!(rt;
            self.wakeups.next_polled(from),
            self.polled.first_from(from)
        );
        assert_eq!(rt;
            self.wakeups.next_outbox_ready(from),
            self.outbox_ready.first_from(from)
        );
        assert_eq!(rt; self.wakeups.count_polled(), self.polled.count());
    }
}

#[test]
fn random_steps_wake_whom_they_must(rt: HostRuntime) -> Result<(), Fail> {
    for seed in 1..4u64 {
        let mut both = Both::open(rt.alloc(), seed)?;
        for _ in 0..STEPS {
            let seen = both.wakeups.notifications();
            let must = both.step(&rt);
            assert_eq!(rt;
                both.wakeups.notifications().wrapping_sub(seen),
                u64::from(must)
            );
            if must {
                both.wake();
            }
            both.compare(&rt);
        }
        let seen = both.wakeups.notifications();
        assert!(rt; !both.wakeups.is_done());
        both.wakeups.finish();
        assert!(rt; both.wakeups.is_done() && both.wakeups.notifications() != seen);
    }
    Ok(())
}

/// How a worker sleeps.
#[derive(Clone, Copy)]
enum Sleep {
    Rest,
    Doze,
    /// It dozes while another one does.
    Reserve,
}

/// The number of sleeps of a test. Without a notification one lasts for 100 milliseconds.
const SLEEPS: u64 = 100;

/// Far more seconds than `SLEEPS` sleeps take that are ended early, and half of what they take else.
const SOON: u64 = 5;

/// The seconds since a start; the most there can be if the clock can't be read.
fn seconds_since(rt: &impl Clock, start: Option<Instant>) -> u64 {
    let Some(start) = start else {
        return u64::MAX;
    };
    match start.elapsed(rt) {
        Ok(time) => time.as_secs(),
        Err(_) => u64::MAX,
    }
}

/// Sleeps again and again, and counts how often it woke.
fn sleep_again<R: Wait>(rt: &R, wakeups: &Wakeups, sleep: Sleep, woken: &AtomicU64) {
    for _ in 0..SLEEPS {
        let seen = wakeups.notifications();
        match sleep {
            Sleep::Rest => wakeups.rest(rt, seen),
            Sleep::Doze | Sleep::Reserve => wakeups.doze(rt, seen, 10_000),
        }
        woken.fetch_add(1, Ordering::SeqCst);
    }
}

/// Whether a worker sleeps so.
fn is_asleep(wakeups: &Wakeups, sleep: Sleep) -> bool {
    match sleep {
        Sleep::Rest => wakeups.resting.load(Ordering::SeqCst) == 1,
        Sleep::Doze => wakeups.dozing.load(Ordering::SeqCst),
        Sleep::Reserve => wakeups.reserve.load(Ordering::SeqCst) == 1,
    }
}

/// Notifies as whoever has work for a worker that sleeps so.
fn notify(wakeups: &Wakeups, sleep: Sleep) {
    match sleep {
        Sleep::Rest => wakeups.wake_resting(),
        Sleep::Doze => wakeups.read_ended(64, 0),
        Sleep::Reserve => wakeups.wake_reserve(),
    }
}

/// Notifies each time that the worker sleeps, until it has woken from all its sleeps.
fn notify_again<R: Wait>(rt: &R, wakeups: &Wakeups, sleep: Sleep, woken: &AtomicU64) {
    for _ in rt.forever() {
        if woken.load(Ordering::SeqCst) >= SLEEPS {
            return;
        }
        if is_asleep(wakeups, sleep) {
            notify(wakeups, sleep);
        }
        thread::yield_now();
    }
}

fn assert_notified_in_time<R>(rt: &R, sleep: Sleep) -> Result<(), Fail>
where
    R: AllocGlobal + Threads + Wait + Clock + Abort + Sync,
{
    let wakeups = &Wakeups::open(rt.alloc(), 1, 1)?;
    if let Sleep::Reserve = sleep {
        wakeups.dozing.store(true, Ordering::SeqCst);
    }
    let woken = &AtomicU64::new(0);
    let start = Instant::now(rt).ok();
    join(
        rt,
        || sleep_again(rt, wakeups, sleep, woken),
        || notify_again(rt, wakeups, sleep, woken),
    );
    assert!(rt; seconds_since(rt, start) < SOON);
    assert!(rt;
        wakeups.resting.load(Ordering::SeqCst) == 0 && wakeups.reserve.load(Ordering::SeqCst) == 0
    );
    Ok(())
}

#[test]
fn a_notification_ends_a_rest(rt: HostRuntime) -> Result<(), Fail> {
    assert_notified_in_time(&rt, Sleep::Rest)
}

#[test]
fn a_notification_ends_a_doze(rt: HostRuntime) -> Result<(), Fail> {
    assert_notified_in_time(&rt, Sleep::Doze)
}

#[test]
fn a_notification_ends_a_sleep_in_reserve(rt: HostRuntime) -> Result<(), Fail> {
    assert_notified_in_time(&rt, Sleep::Reserve)
}

/// NoWatcher notifies here: a nap is short, and so is a rest while an inbox is ready; after the end of the run nobody sleeps.
#[test]
fn who_must_look_again_sleeps_little(rt: HostRuntime) -> Result<(), Fail> {
    let wakeups = Wakeups::open(rt.alloc(), ROUTES, 2)?;
    let start = Instant::now(&rt).ok();
    wakeups.set_inbox_ready(129);
    for _ in 0..SLEEPS {
        wakeups.nap(&rt, wakeups.notifications());
        wakeups.rest(&rt, wakeups.notifications());
    }
    assert!(rt; wakeups.enter(129));
    wakeups.finish();
    wakeups.dozing.store(true, Ordering::SeqCst);
    for _ in 0..SLEEPS {
        wakeups.rest(&rt, wakeups.notifications());
        wakeups.doze(&rt, wakeups.notifications(), 10_000);
    }
    assert!(rt; seconds_since(&rt, start) < SOON);
    Ok(())
}
