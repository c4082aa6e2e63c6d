//! Words that carry a watcher's answers from the watching thread to the polling one. Each word keeps a rule: if it states
//! an answer, what is known of that answer holds. So the polling thread closes all, ends or closes a route only by a word
//! that was written after the watcher's answer.

use srt_supervision::Answers;
use std::marker::{Brand, PhantomData};
use std::sync::atomic::{AtomicIn, Rule};

/// The rule of a word that is 0 until the watcher has ordered to close all.
pub struct ClosesAll<A>(PhantomData<A>);

impl<A: Answers> Rule for ClosesAll<A> {
    ghost use Rattle.std.specs.Prelude.{◌≢◌};
    ghost use Rattle.srt_supervision.specs.Answers.{AllClose};

    ghost invariant = { λ n. n ≢ 0 → A.answered AllClose };
}

/// The rule of a word that is 0 until the watcher has ordered to end.
pub struct EndsRun<A>(PhantomData<A>);

impl<A: Answers> Rule for EndsRun<A> {
    ghost use Rattle.std.specs.Prelude.{◌≢◌};
    ghost use Rattle.srt_supervision.specs.Answers.{RunEnds};

    ghost invariant = { λ n. n ≢ 0 → A.answered RunEnds };
}

/// The rule of a word that is 0, or one more than the index of a route that the watcher requested to close.
pub struct ClosesRoute<A>(PhantomData<A>);

impl<A: Answers> Rule for ClosesRoute<A> {
    ghost use Rattle.std.specs.Prelude.{◌≡◌, ℕ, suc};
    ghost use Rattle.srt_supervision.specs.Answers.{Closes};

    ghost invariant = { λ n. (r : ℕ) → n ≡ suc r → A.answered (Closes r) };
}

/// With how many routes a run begins. No code reads that: it is known of the places of the run's routes by their type.
pub trait Beginning {
    ghost use Rattle.std.specs.Prelude.{ℕ};

    /// The number of routes with which the run begins. Those with the indexes from it on open by the watcher's answers.
    ghost first: { ℕ };
}

/// The beginning of one run: the call that begins it says how many routes there are.
impl Beginning for Brand {
    ghost first = { 0 };
}

/// The answers of a watcher of this type, in a run with this beginning. No value of it is made: threads share it though
/// they don't share the watcher.
#[derive(Drop)]
pub struct AnswersOf<T: Answers, B: Beginning> {
    word: AtomicIn<EndsRun<T>>,
    of: PhantomData<B>,
}

impl<T: Answers, B: Beginning> Answers for AnswersOf<T, B> {
    ghost answered = { λ a. T.answered a };
}

impl<T: Answers, B: Beginning> Beginning for AnswersOf<T, B> {
    ghost first = { B.first };
}
