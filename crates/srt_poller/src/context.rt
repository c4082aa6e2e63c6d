//! The inputs of a poller and of a round, apart from the devices, the names and the ends of the routes.

ghost use Rattle.std.specs.Prelude.{◌≡◌, ◌<◌, ◌≤◌, ℕ};

use crate::signals::Hints;
use srt_cookie::Secret;
use srt_lobby::Names;
use srt_types::Schedule;
use std::alloc::Global;

/// What a poller does, and with what: the same in all its rounds.
#[derive(Drop)]
pub struct PollerTask<'a, R, G> {
    /// The host, whose locks the queues use.
    pub rt: &'a R,
    /// Allocates copies of datagrams.
    pub alloc: Global,
    /// The secret of the lobby's cookies.
    pub secret: &'a Secret,
    /// The rounds in which each of the first routes opens and closes, in the order of their indexes.
    pub schedules: &'a [Schedule],
    /// The most rounds: it makes as many unless the order is to end.
    pub rounds: u64,
    /// The orders and hints that it gets, and what it reports.
    pub signals: &'a G,
}

/// A round to make, whose changes have been taken.
#[derive(Drop)]
pub(crate) struct RoundOrder<'a, 'b, R, G> {
    /// What the poller does.
    pub(crate) task: &'b PollerTask<'a, R, G>,
    /// The round closes all.
    pub(crate) closes_all: bool,
}

/// The inputs of the lobby's classification.
#[derive(Clone, Copy)]
pub(crate) struct Classifier<'a, 'b> {
    /// The secret of its cookies.
    pub(crate) secret: &'a Secret,
    /// The names of the routes, in the order of their indexes.
    pub(crate) names: &'b Names,
}

/// The inputs of a round, apart from its devices and the ends of the routes.
#[derive(Drop)]
pub(crate) struct RoundContext<'a, 'b, R, G> {
    /// The host, whose locks the queues use.
    pub(crate) rt: &'a R,
    /// Allocates copies of datagrams.
    pub(crate) alloc: Global,
    /// Classifies datagrams.
    pub(crate) lobby: Classifier<'a, 'b>,
    /// The hints.
    pub(crate) signals: &'a G,
    /// The number of the round.
    pub(crate) round: u64,
}

/// The hints of a round for a look ahead, which is before it drains any outbox. It can't take a mark, and has no host, without
/// which no reply is taken from an outbox.
#[derive(Drop)]
pub(crate) struct LookAhead<'a, G> {
    signals: &'a G,
}

impl<'a, R, G> RoundContext<'a, '_, R, G> {
    /// Returns the hints for a look ahead.
    #[inline(always)]
    pub(crate) fn look_ahead(&self) -> LookAhead<'a, G>
        ensures { result.signals ≡ self.now.signals }
    {
        LookAhead {
            signals: self.signals,
        }
    }
}

impl<G: Hints> LookAhead<'_, G> {
    /// Returns the first route from this one on with a hint that its outbox may have a reply.
    #[inline(always)]
    pub(crate) fn next_hinted(&self, route: usize) -> usize
        ensures later { route ≤ result }
        ensures rest { (r : ℕ) → route ≤ r → r < result → G.rests self.now.signals.now r }
    {
        self.signals.next_outbox_ready(route).max(route)
    }
}
