//! Counts of the polling thread that the watching one reads. Each has a type of its own, so that none is taken for another:
//! code that reads or writes one in place of another doesn't compile. They are generic over a rule: under an unknown one, only
//! a counter can show a number.

ghost use Rattle.std.specs.Prelude.{◌≡◌};
ghost use Rattle.std.specs.Sync.Atomic.Rule.{StaysUnderAdd};

use crate::evidence::{OneAdded, WordWritten, add_one, write_word};
use srt_wakeups::SharedWord;
use std::marker::PhantomData;
use std::sync::atomic::{AtomicIn, Rule};

/// The rule of a number that may be any. `X` names what it is the number of, so that one isn't taken
/// for another.
pub struct AnyNumber<X>(PhantomData<X>);

impl<X> Rule for AnyNumber<X> {
    ghost invariant = { λ _. Unit {0} };
}

/// The faults of the socket: waits, reads and sends that failed.
pub struct SocketFaults;

impl Rule for SocketFaults {
    ghost invariant = { λ _. Unit {0} };
}

/// The refusals for which there was no place.
pub struct MissedRefusals;

impl Rule for MissedRefusals {
    ghost invariant = { λ _. Unit {0} };
}

/// How many of `K` there were when they were read.
#[derive(Drop)]
pub struct Count<K> {
    /// Their number.
    pub number: u64,
    of: PhantomData<K>,
}

/// Evidence that one of `K` was counted.
#[derive(Drop)]
pub struct Counted<K: Rule> {
    added: OneAdded<AtomicIn<K>>,
}

/// Counts `K`, from 0 on.
#[derive(Drop)]
pub struct Counter<K: Rule> {
    count: AtomicIn<K>,
}

impl<K: Rule> Counter<K> {
    /// None were counted yet.
    pub fn new() -> Counter<K>
        requires { K.invariant 0 }
    {
        Counter {
            count: AtomicIn::new(0),
        }
    }

    /// Counts one. The result is evidence of it.
    pub fn add(&self) -> Counted<K>
        requires { StaysUnderAdd K.invariant 1 }
    {
        Counted {
            added: add_one(&self.count),
        }
    }

    /// Writes how many there are.
    pub fn write(&self, number: u64) -> WordWritten<AtomicIn<K>>
        requires { K.invariant number }
        ensures { result.number ≡ number }
    {
        write_word(&self.count, number)
    }

    /// How many there were so far.
    pub fn read(&self) -> Count<K>
        ensures { K.invariant result.number }
    {
        Count {
            number: self.count.read(),
            of: PhantomData,
        }
    }
}
