//! The ticking thread: it offers the time to all routes.

ghost use Rattle.std.specs.Prelude.{◌≡◌, ◌<◌, ◌≤◌, ◌^◌, List, [], ◌∷◌, ◌++◌, IfNone, length};
ghost use Rattle.std.specs.Vec.{vec_capacity};
ghost use Rattle.srt_serve.specs.Ticks.{WereTicked, Ticked};

use crate::evidence::{RunOver, TicksOffered, come, offered_to, run_over};
use crate::turns::make_tick;
use srt_mailbox::{ClockEnd, InboxFull};
use srt_types::Item;
use srt_wakeups::Wakeups;
use std::sync::Wait;
use std::thread;

/// Returns the times at which the ticking thread ticks, and decides how often: `next` is called again at once after each
/// tick, and may wait before it returns.
pub trait Ticker {
    ghost use Rattle.std.specs.Prelude.{◌≡◌, ◌<◌, ◌^◌, ℕ, Option, List, [], ◌∷◌};
    ghost use Rattle.srt_poller.specs.Devices.{joined};

    /// All times that it returned, the oldest first, or `None` for a ticker that doesn't record them.
    ghost gave: { Self → Option (List ℕ) };

    /// Returns the next time, in microseconds, below 2^62. A run doesn't end before this call returns.
    fn next(&mut self) -> u64
        ensures timely { result < 2 ^ 62 }
        ensures records { gave self.new ≡ joined (gave self.old) (result ∷ []) };
}

/// The clock's end of an inbox, to which ticks are offered.
pub trait TickEnd {
    ghost use Rattle.std.specs.Prelude.{◌≡◌, ◌<◌, ◌^◌, ℕ, Option, List, [], ◌∷◌, OnOk, IfErr};
    ghost use Rattle.srt_mailbox.specs.Ends.{Producer};
    ghost use Rattle.srt_poller.specs.Devices.{joined};
    ghost use Rattle.srt_serve.specs.Ticks.{accepts};

    /// Which inbox it is, its capacity, and the items of this end that it accepted.
    ghost inbox: { Self → Producer };

    /// The moments of all ticks that were offered, the oldest first, or `None` for an end that doesn't record them.
    ghost tried: { Self → Option (List ℕ) };

    /// Offers a tick, at a time in microseconds, below 2^62. A full inbox discards it; the error is evidence of that.
    fn offer_tick<R: Wait>(&mut self, rt: &R, moment: u64) -> Result<(), InboxFull>
        requires timely { moment < 2 ^ 62 }
        ensures accepted { OnOk result (inbox self.new ≡ accepts moment (inbox self.old)) }
        ensures full { IfErr result (λ _. inbox self.new ≡ inbox self.old) }
        ensures records { tried self.new ≡ joined (tried self.old) (moment ∷ []) };

    /// Reads what `offer_tick` will read, so that the processor has it in its caches then. Changes nothing.
    fn touch(&mut self)
        ensures same { self.new ≡ self.old };
}

impl TickEnd for ClockEnd {
    ghost use Rattle.std.specs.Prelude.{None};

    ghost inbox = { λ end. end };

    ghost tried = { λ end. None };

    fn offer_tick<R: Wait>(&mut self, rt: &R, moment: u64) -> Result<(), InboxFull> {
        match self.offer(rt, Item::Tick { moment }) {
            Ok(()) => Ok(()),
            Err(fault) => Err(fault.evidence),
        }
    }

    fn touch(&mut self) {
        let _ = self.is_full();
    }
}

/// Returns the clock's ends of routes that are added while others are ticked.
pub trait TickEnds<E> {
    ghost use Rattle.std.specs.Prelude.{◌≡◌, ℕ, List, [], ◌∷◌, ◌++◌, IfOk, IfErr};

    /// All ends that it returned, in their order.
    ghost added: { Self → List E };

    /// The names of the places from which it takes them. No call changes that.
    ghost places: { Self → List ℕ };

    /// Evidence that there was no further end.
    type NoneLeft: Drop;

    /// Returns the next end; the error is evidence that there is none. Polled before each tick, so it may not wait, and
    /// should cost no more than a load or two if there is none.
    fn next(&mut self) -> Result<E, Self::NoneLeft>
        ensures some { IfOk result (λ end. added self.new ≡ added self.old ++ end ∷ []) }
        ensures none { IfErr result (λ _. added self.new ≡ added self.old) }
        ensures same { places self.new ≡ places self.old };
}

/// The clock's ends of all routes, and their ticker.
#[derive(Drop)]
pub struct Clocks<K: Drop, E: Drop, A: Drop> {
    /// In the order of the routes' indexes. No more are added than this has room for.
    pub ends: Vec<E>,
    /// Returns those that are added.
    pub arrivals: A,
    /// Returns the times.
    pub ticker: K,
}

/// Takes all ends that were added: until there is evidence that there is none, or as long as there is room for them.
pub fn take_new<E: Drop, A: TickEnds<E>>(ends: &mut Vec<E>, arrivals: &mut A) -> Option<A::NoneLeft>
    ensures taken { (more : List E) × (A.added arrivals.new ≡ A.added arrivals.old ++ more) × (ends.new.items ≡ ends.old.items ++ more) }
    ensures same { A.places arrivals.new ≡ A.places arrivals.old }
    ensures all { IfNone result (vec_capacity ends.old ≤ length ends.new.items) }
{
    for at in ends.len()..ends.capacity() {
        match arrivals.next() {
            Ok(end) => {
                let Ok(()) = ends.push(end) else {
                    unreachable!();
                };
            }
            Err(none) => return Some(none),
        }
    }
    None
}

/// The work of a ticking thread until the run has ended. Code that starts threads is generic over this trait.
pub trait Clockwork {
    /// What becomes of a clock that ticks.
    ghost ticked: { Self → Self → Type 0 };

    /// Ticks until the run has ended.
    fn tick<R: Wait>(&mut self, rt: &R, wakeups: &Wakeups) -> RunOver
        ensures { ticked self.old self.new };
}

impl<K: Ticker + Drop, E: TickEnd + Drop, A: TickEnds<E> + Drop> Clockwork for Clocks<K, E, A> {
    ghost use Rattle.srt_serve.specs.Ticks.{Ticked};
    ghost use Rattle.std.specs.Prelude.{◌≡◌};

    ghost ticked = { λ a b. (A.places b.arrivals ≡ A.places a.arrivals)
        × Ticked E.inbox E.tried (K.gave a.ticker) (K.gave b.ticker) (A.added a.arrivals) (A.added b.arrivals) a.ends.items b.ends.items };

    fn tick<R: Wait>(&mut self, rt: &R, wakeups: &Wakeups) -> RunOver {
        tick(rt, self, wakeups)
    }
}

// Reads all ends. They are mostly out of the caches, and here the processor fetches those of several routes at the
// same time, before `tick_each` uses them.
fn prefetch<E: TickEnd>(ends: &mut [E])
    ensures { WereTicked E.inbox E.tried [] ends.old ends.new }
{
    for end in ends.iter_mut() {
        end.touch();
    }
}

// Offers a tick to every route, in the order of their indexes.
fn tick_each<R: Wait, E: TickEnd>(rt: &R, ends: &mut [E], moment: u64)
    requires { moment < 2 ^ 62 }
    ensures { WereTicked E.inbox E.tried (moment ∷ []) ends.old ends.new }
{
    for end in ends.iter_mut() {
        let _ = end.offer_tick(rt, moment);
    }
}

// Offers a tick to every route, after reading all of them.
fn tick_all<R: Wait, E: TickEnd>(rt: &R, ends: &mut [E], moment: u64)
    requires { moment < 2 ^ 62 }
    ensures { WereTicked E.inbox E.tried (moment ∷ []) ends.old ends.new }
{
    prefetch(ends);
    tick_each(rt, ends, moment);
}

/// Takes the ends that were added, and offers a tick to every route, in the order of their indexes. The workers are to be told.
pub fn tick_with_new<R: Wait, E: TickEnd + Drop, A: TickEnds<E>>(
    rt: &R,
    ends: &mut Vec<E>,
    arrivals: &mut A,
    moment: u64,
) -> TicksOffered
    requires { moment < 2 ^ 62 }
    ensures offered { result.routes ≡ length ends.new.items }
    ensures ticked { (more : List E) × (A.added arrivals.new ≡ A.added arrivals.old ++ more)
        × WereTicked E.inbox E.tried (moment ∷ []) (ends.old.items ++ more) ends.new.items }
    ensures same { A.places arrivals.new ≡ A.places arrivals.old }
{
    let _ = take_new(ends, arrivals);
    tick_all(rt, ends, moment);
    offered_to(ends)
}

/// Offers a tick to every route at each time that the ticker returns, until the run has ended. No route is left out: one
/// that needs a worker gets its tick too, and a full inbox discards it. Routes that were added by then get the tick as
/// well.
pub fn tick<R: Wait, K: Ticker + Drop, E: TickEnd + Drop, A: TickEnds<E> + Drop>(
    rt: &R,
    clocks: &mut Clocks<K, E, A>,
    wakeups: &Wakeups,
) -> RunOver
    ensures ticked { Ticked E.inbox E.tried (K.gave clocks.old.ticker) (K.gave clocks.new.ticker) (A.added clocks.old.arrivals) (A.added clocks.new.arrivals)
        clocks.old.ends.items clocks.new.ends.items }
    ensures same { A.places clocks.new.arrivals ≡ A.places clocks.old.arrivals }
{
    let came = come(wakeups);
    for _ in rt.forever() {
        match run_over(wakeups, &came) {
            Ok(over) => return over,
            Err(turn) => {
                let _ = make_tick(rt, clocks, wakeups, turn);
            }
        }
        thread::yield_now();
    }
    unreachable!()
}
