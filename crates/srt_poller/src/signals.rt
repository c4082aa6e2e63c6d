//! What a poller shares with the other threads of a run: orders, hints, reports, and the routes that it serves itself.

ghost use Rattle.std.specs.Prelude.{◌≡◌};

use srt_lobby::Names;
use srt_supervision::{Order, Report};
use srt_types::Peer;

/// Orders to a poller. Calls come from the poller's thread.
pub trait Orders {
    ghost use Rattle.std.specs.Prelude.{◌≡◌};
    ghost use Rattle.srt_supervision.specs.declared.order.Order.TheVariants.{GoOn, CloseAll, End};

    /// What is known once `order` has returned `GoOn`. It may be nothing.
    ghost goes: { Self → Type 0 };

    /// What is known once `order` has returned `CloseAll`. It may be nothing.
    ghost closes: { Self → Type 0 };

    /// What is known once `order` has returned `End`. It may be nothing.
    ghost stops: { Self → Type 0 };

    /// The order for the next round; called before each round, the first among them.
    fn order(&self) -> Order
        ensures goes { result ≡ GoOn → goes self.now }
        ensures closes { result ≡ CloseAll → closes self.now }
        ensures stops { result ≡ End → stops self.now };
}

/// Hints in both directions between a poller and the threads that serve the routes. No contract depends on one: a wrong
/// hint makes replies leave up to 64 rounds later, and loses nothing. Calls come from the poller's thread.
pub trait Hints {
    ghost use Rattle.std.specs.Prelude.{◌≡◌, ◌<◌, ◌≤◌, ℕ, false};

    /// What is known of a route whose outbox was said to have no reply. By default nothing.
    ghost rests: { Self → (route : ℕ) → Type 0 } = { λ _ _. Unit {0} };

    /// What is known once it was told that a route's inbox accepted something. By default nothing.
    ghost noticed: { Self → (route : ℕ) → Type 0 } = { λ _ _. Unit {0} };

    /// The inbox of the route with this index accepted something from the poller: a datagram or Close.
    fn polled(&self, route: usize)
        ensures { noticed self.now route };

    /// Whether the outbox of the route with this index may have a reply. It may clear that mark, since the poller then
    /// drains the outbox, and remembers if it left before that was empty.
    fn take_outbox_ready(&self, route: usize) -> bool
        ensures rests { result ≡ false → rests self.now route };

    /// The least index from this one on for which `take_outbox_ready` may return true; the route count or more if there
    /// is none.
    fn next_outbox_ready(&self, route: usize) -> usize
        ensures rest { (r : ℕ) → route ≤ r → r < result → rests self.now r };
}

/// Gets reports of a poller. Calls come from the poller's thread. A poller knows nothing of its observer but what `knows`
/// says, so only by a call can it show that the observer was told.
pub trait PollerObserver {
    ghost use Rattle.srt_lobby.specs.Names.{names_of};
    ghost use Rattle.srt_poller.specs.Devices.{datagram as datagram_of};
    ghost use Rattle.srt_poller.specs.Told.{Observer, knows_nothing, IsHandshake};

    /// What is known once it was told something: for the observer to choose, and by default nothing.
    ghost knows: { Self → Observer } = { λ _. knows_nothing };

    /// The counters so far; called each time before `Orders::order`. A reply that is kept counts neither as sent nor as
    /// lost.
    fn reported(&self, report: &Report)
        ensures { (knows self.now).counts report.now };

    /// The lobby, which has these names, answered this datagram of this peer, and the answer was handed to the wire or
    /// lost. Called for every answer.
    fn answered(&self, names: &Names, peer: Peer, datagram: &[u8], answer: &[u8])
        ensures { (knows self.now).answer (names_of names.now) (datagram_of peer datagram.now) answer.now };

    /// A handshake, whose first word is 0x80000000, was taken from the outbox of the route with this index, for this
    /// peer, and was handed to the wire, lost or kept.
    fn replied(&self, route: usize, peer: Peer, handshake: &[u8])
        requires { IsHandshake handshake.now }
        ensures { (knows self.now).handshake route (datagram_of peer handshake.now) };

    /// A wait, a read or a send failed: what the report counts as a fault.
    fn failed(&self)
        ensures { (knows self.now).fault };
}

/// Serves routes in the polling thread, between the reads and the sends of a round. No contract depends on it: a route's
/// replies are those of its definition, whichever thread serves it.
pub trait InlineService {
    ghost use Rattle.std.specs.Prelude.{ℕ};

    /// What is known once it served routes after this many datagrams. By default nothing.
    ghost served: { Self → (datagrams : ℕ) → Type 0 } = { λ _ _. Unit {0} };

    /// Serves routes, or leaves them to other threads. The reads of the round returned this many datagrams, 0 to 256. Not
    /// called in a round whose wait failed.
    fn serve_inline(&self, datagrams: u32)
        ensures { served self.now datagrams };
}

/// All that a poller uses of the other threads of a run.
pub trait Signals: Orders + Hints + PollerObserver + InlineService {}

/// All rounds are made, none closes all, and every outbox may have a reply, so each round checks all of them. Nothing is
/// reported, and no route is served.
#[derive(Clone, Copy, Debug, PartialEq, Eq)]
pub struct Unsignalled;

impl Orders for Unsignalled {
    ghost use Rattle.srt_supervision.specs.declared.order.Order.TheVariants.{GoOn};

    ghost goes = { λ s. Unit {0} };

    ghost closes = { λ s. ⊥ };

    ghost stops = { λ s. ⊥ };

    fn order(&self) -> Order
        ensures { result ≡ GoOn }
    {
        Order::GoOn
    }
}

impl Hints for Unsignalled {
    ghost use Rattle.std.specs.Prelude.{true};

    ghost rests = { λ s route. ⊥ };

    fn polled(&self, _route: usize) {}

    fn take_outbox_ready(&self, _route: usize) -> bool
        ensures { result ≡ true }
    {
        true
    }

    fn next_outbox_ready(&self, route: usize) -> usize
        ensures { result ≡ route }
    {
        route
    }
}

impl PollerObserver for Unsignalled {
    fn reported(&self, _report: &Report) {}

    fn answered(&self, _names: &Names, _peer: Peer, _datagram: &[u8], _answer: &[u8]) {}

    fn replied(&self, _route: usize, _peer: Peer, _handshake: &[u8]) {}

    fn failed(&self) {}
}

impl InlineService for Unsignalled {
    fn serve_inline(&self, _datagrams: u32) {}
}

impl Signals for Unsignalled {}
