//! The permission to make a step, and the outcome of serving a route.

ghost use Rattle.std.specs.Prelude.{◌≡◌, ℕ, Option, List, ◌∷◌, option_map, IsTrue, IsFalse};
ghost use Rattle.srt_mailbox.specs.Queried.{Answer, answer};
ghost use Rattle.srt_mailbox.specs.Counts.{Grew};

use crate::added_seats::EmptyPlace;
use crate::slots::TakenElsewhere;
use srt_types::Turned;

/// Permits or refuses a worker's step. It is queried before each step, while the worker has the route; a gate that
/// waits blocks that route for other workers. Each worker has a separate gate.
pub trait Gate {
    /// The number of refusals. Saturates at 2^64 - 1.
    ghost held: { Self → ℕ };

    /// The routes for which it was queried and its answers, newest first; `None` for a gate that keeps no record.
    ghost requested: { Self → Option (List Answer) };

    /// What is known once it was told that another call has the route with this index. This and the next one may be
    /// nothing, but only by a call with the evidence can code that is generic over gates show them.
    ghost elsewhere: { Self → (route : ℕ) → Type 0 } = { λ _ _. Unit {0} };

    /// What is known once it was told that a place has no route.
    ghost nobody: { Self → Type 0 } = { λ _. Unit {0} };

    /// Whether a step of the route with this index may be made now. If not, the number of refusals grows by one.
    fn allows(&mut self, route: usize) -> bool
        ensures refused { IsFalse result → Grew (held self.old) (held self.new) }
        ensures passed { IsTrue result → held self.new ≡ held self.old }
        ensures requested { requested self.new ≡ option_map (λ answers. answer route result ∷ answers) (requested self.old) };

    /// Another call has the route with this index, by this evidence: no step is made, and none was asked for.
    fn is_elsewhere(&self, route: usize, taken: TakenElsewhere)
        ensures { elsewhere self.now route };

    /// The place that was to be served has no route, by this evidence.
    fn seats_nobody(&self, empty: EmptyPlace)
        ensures { nobody self.now };

    /// Returns the number of refusals. Saturates at 2^64 - 1.
    fn held(&self) -> u64
        ensures { result ≡ held self.now };
}

/// A gate that permits every step.
#[derive(Clone, Copy, Debug, PartialEq, Eq)]
pub struct Ungated;

impl Gate for Ungated {
    ghost use Rattle.std.specs.Prelude.{None, true};

    ghost held = { λ gate. 0 };

    ghost requested = { λ gate. None };

    fn allows(&mut self, _route: usize) -> bool
        ensures { result ≡ true }
    {
        true
    }

    fn is_elsewhere(&self, _route: usize, _taken: TakenElsewhere) {}

    fn seats_nobody(&self, _empty: EmptyPlace) {}

    fn held(&self) -> u64
        ensures { result ≡ 0 }
    {
        0
    }
}

/// The outcome of `RouteCell::serve`.
#[derive(Clone, Copy, Debug, PartialEq, Eq)]
pub enum Served {
    /// The route made one step, with this outcome.
    Turned(Turned),
    /// The gate refused; no step was made.
    GateRefused,
    /// Another call had the route; no step was made.
    ClaimedElsewhere,
}

/// The outcome of `RouteCell::visit`, a batch of steps.
#[derive(Clone, Copy, Debug, PartialEq, Eq)]
pub struct Visit {
    /// The number of steps that processed a message or moved a reply.
    pub turns: u32,
    /// The number of replies that were moved to the outbox.
    pub moved: u32,
    /// The reason why the batch ended: a step found no work (`Idle`) or a full outbox (`Blocked`), the gate refused,
    /// or another call had the route. `None` if it made the maximum number of steps.
    pub end: Option<Served>,
}
