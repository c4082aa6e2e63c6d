//! A set of routes as bits that any thread sets and clears, 64 in a word. What is read is read at some moment: the clauses
//! state what follows of a word that was read, and which routes an answer may name.

ghost use Rattle.std.specs.Prelude.{◌≡◌, ◌≢◌, ℕ, ◌<◌, ◌≤◌, ◌+◌, ◌-◌, ◌*◌, ◌^◌, ◌==◌, min, IfOk, IsTrue, count_ones};
ghost use Rattle.std.specs.Int.{bit_at};
ghost use Rattle.srt_wakeups.specs.Marks.{routes_of, IsNextFrom};
ghost use Rattle.srt_wakeups.specs.inside.Words.{place_of, IsFirstFrom};

use std::alloc::{AllocError, Global};
use std::sync::atomic::{AtomicU64, Ordering};

/// A bit for each route. An index that is no route's counts as never set.
#[derive(Drop)]
pub struct AtomicBitSet {
    // route r has bit r % 64 of word r / 64; bits past the last route are never set
    words: Vec<AtomicU64>,
    routes: usize,
}

/// A route's bit in its word.
fn bit_of(route: usize) -> u64
    ensures { result ≡ 2 ^ place_of route }
{
    1u64.wrapping_shl((route % 64) as u32)
}

/// All bits of a word but a route's.
fn others_of(route: usize) -> u64
    ensures { result ≡ 2 ^ 64 - 1 - 2 ^ place_of route }
{
    !bit_of(route)
}

/// Whether a route's bit is set in its word.
fn is_in(word: u64, route: usize) -> bool
    ensures { result ≡ (bit_at word (place_of route) == 1) }
{
    word & bit_of(route) != 0
}

/// A word with a route's bit set.
fn with(word: u64, route: usize) -> u64
    ensures set { bit_at result (place_of route) ≡ 1 }
    ensures others { (place : ℕ) → place ≢ place_of route → bit_at result place ≡ bit_at word place }
{
    word | bit_of(route)
}

/// A word with a route's bit clear.
fn without(word: u64, route: usize) -> u64
    ensures clear { bit_at result (place_of route) ≡ 0 }
    ensures others { (place : ℕ) → place < 64 → place ≢ place_of route → bit_at result place ≡ bit_at word place }
{
    word & others_of(route)
}

/// A word with the bits of this many routes set, 64 at most.
fn all_of(routes: usize) -> u64
    ensures { result ≡ 2 ^ min routes 64 - 1 }
{
    if routes < 64 {
        bit_of(routes).wrapping_sub(1)
    } else {
        u64::MAX
    }
}

/// The first bit from this one on that is set in a word; 64 if there is none.
fn first_in(word: u64, from: u32) -> u32
    requires { from < 64 }
    ensures { IsFirstFrom word from result }
{
    // the bits from this one on
    let kept = word & u64::MAX.wrapping_shl(from);
    kept.trailing_zeros()
}

/// The index of the route that has this bit of the word with this index.
fn route_at(word: usize, place: u32) -> usize
    ensures { result ≡ min (word * 64 + place) (2 ^ 64 - 1) }
{
    word.saturating_mul(64).saturating_add(place as usize)
}

impl AtomicBitSet {
    /// Bits for this many routes, all clear. Allocates a bit a route; an error means that memory was refused.
    pub fn open(alloc: Global, routes: usize) -> Result<AtomicBitSet, AllocError>
        ensures { IfOk result (λ set. routes_of set ≡ routes) }
    {
        let count = routes.div_ceil(64);
        let mut words = Vec::with_capacity(alloc, count)?;
        for _ in 0..count {
            words.push(AtomicU64::new(0))?;
        }
        Ok(AtomicBitSet { words, routes })
    }

    /// Whether the route's bit is set.
    pub(crate) fn is_set(&self, route: usize) -> bool
        ensures { IsTrue result → route < routes_of self.now }
    {
        match self.words.get(route / 64) {
            Some(word) => route < self.routes && is_in(word.load(Ordering::SeqCst), route),
            None => false,
        }
    }

    /// Sets the route's bit. True if it was clear and this call set it. A bit that is set already is only read, so
    /// that its cache line isn't taken from other processors.
    pub fn set(&self, route: usize) -> bool
        ensures { IsTrue result → route < routes_of self.now }
    {
        if route >= self.routes {
            return false;
        }
        match self.words.get(route / 64) {
            Some(word) => {
                !is_in(word.load(Ordering::SeqCst), route)
                    && !is_in(word.fetch_or(bit_of(route), Ordering::SeqCst), route)
            }
            None => false,
        }
    }

    /// Sets the route's bit, if no other thread writes to this set meanwhile. Makes no locked operation. No clause states
    /// what it writes: the library states nothing of an atomic.
    pub(crate) fn set_alone(&self, route: usize) {
        let Some(word) = self.words.get(route / 64) else {
            return;
        };
        if route < self.routes {
            let bits = word.load(Ordering::Relaxed);
            word.store(with(bits, route), Ordering::Relaxed);
        }
    }

    /// Clears the route's bit, if no other thread writes to this set meanwhile. Makes no locked operation. No clause states
    /// what it writes: the library states nothing of an atomic.
    pub(crate) fn clear_alone(&self, route: usize) {
        if let Some(word) = self.words.get(route / 64) {
            let bits = word.load(Ordering::Relaxed);
            word.store(without(bits, route), Ordering::Relaxed);
        }
    }

    /// The number of bits that are set. Costs a load for each 64 routes.
    pub(crate) fn count(&self) -> u64
        ensures { result ≤ routes_of self.now }
    {
        let mut count = 0u64;
        for word in &self.words {
            let bits = word.load(Ordering::Relaxed);
            count = count.saturating_add(u64::from(bits.count_ones()));
        }
        count.min(self.routes as u64)
    }

    /// The number of routes.
    pub(crate) fn len(&self) -> usize
        ensures { result ≡ routes_of self.now }
    {
        self.routes
    }

    /// Clears the route's bit. No clause states what it writes: the library states nothing of an atomic.
    pub fn clear(&self, route: usize) {
        if let Some(word) = self.words.get(route / 64) {
            word.fetch_and(others_of(route), Ordering::SeqCst);
        }
    }

    /// Sets the bits of the first `routes` routes, and leaves the others as they are. Costs a locked operation for each 64
    /// of them. No clause states what it writes: the library states nothing of an atomic.
    pub(crate) fn set_first(&self, routes: usize) {
        let mut left = routes.min(self.routes);
        for word in &self.words {
            if left == 0 {
                return;
            }
            word.fetch_or(all_of(left), Ordering::SeqCst);
            left = left.saturating_sub(64);
        }
    }

    /// The first route from this one on whose bit is set; the number of routes if there is none. Costs a load for each 64
    /// routes that it passes over.
    pub fn next_from(&self, route: usize) -> usize
        ensures { IsNextFrom (routes_of self.now) route result }
    {
        let first = route / 64;
        let mut from = (route % 64) as u32;
        for at in first..self.words.len() {
            if let Some(word) = self.words.get(at) {
                let place = first_in(word.load(Ordering::SeqCst), from);
                if place < 64 {
                    return route_at(at, place).min(self.routes);
                }
            }
            from = 0;
        }
        self.len()
    }

    /// Whether any bit is set. Costs a load for each 64 routes.
    pub(crate) fn any(&self) -> bool
        ensures { IsTrue result → 0 < routes_of self.now }
    {
        self.next_from(0) < self.routes
    }
}
