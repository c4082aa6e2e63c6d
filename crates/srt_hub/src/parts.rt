//! The parts of a gateway, as traits: the lobby and the routes. The hub is proved for every lobby and every kind of
//! route from the contracts of these traits alone: a route's replies and the classes of arrivals are ghost members,
//! which each implementation defines.

ghost use Rattle.std.specs.Prelude.{◌≡◌, ◌↔◌, ℕ, ◌<◌, ◌≤◌, ◌^◌, ◌∷◌, [], List, length, true, false, None, Some, Err, IfOk, IfErr, OnErr, map};
ghost use Rattle.srt_types.specs.declared.shared.OpenFault.{OpenFault as TheFault};
ghost use Rattle.srt_cookie.specs.Cookie.{secret_bytes};
ghost use Rattle.srt_lobby.specs.declared.classes.Class.{Class as TheClass};
ghost use Rattle.srt_lobby.specs.declared.classes.Class.TheVariants.{Route as ForRoute};
ghost use Rattle.srt_types.specs.Items.{Item as TheItem, Datagram, input_of, moment_of};
ghost use Rattle.srt_types.specs.Terms.{Terms, terms_of};
ghost use Rattle.srt_route.specs.Written.{written};
ghost use Rattle.srt_types.specs.Entries.{is_name, in_limits};
ghost use Rattle.srt_lobby.specs.Names.{RouteName, is_shown_at};
ghost use Rattle.srt_lobby.specs.Changing.{fault_of_name, fault_of_adding, added, hidden_at};
ghost use Rattle.srt_lobby.specs.Opening.{fault_of};
ghost use Rattle.srt_hub.specs.Hubs.{names};
ghost use Rattle.srt_hub.specs.Calls.{LobbyAnswers, RouteReplies, datagram};

use srt_cookie::Secret;
use srt_lobby::Class;
use srt_route::Reply;
use srt_types::{Entry, Item, OpenFault, Peer};
use std::alloc::Global;

/// Classifies datagrams: answered, dropped, or for a route.
pub trait Lobby: Drop {
    /// The class of a datagram for a lobby with this secret and these names.
    ghost class: { (secret : List ℕ) → (names : List RouteName) → Datagram → (moment : ℕ) → TheClass };

    /// The lobby was opened with this secret and these names of routes, in the order of their indexes.
    ghost knows: { Self → (secret : List ℕ) → (names : List RouteName) → Type 0 };

    /// Opens the lobby of these entries. Errors: `Names`, else `Limits`, else `OutOfMemory`, as `Hub::open`. After an
    /// error nothing is kept.
    fn open(alloc: Global, secret: Secret, entries: &[Entry]) -> Result<Self, OpenFault>
        ensures knows { IfOk result (λ lobby. knows lobby (secret_bytes secret) (names (map terms_of entries.now))) }
        ensures sound { IfOk result (λ _. fault_of (map terms_of entries.now) ≡ None) }
        ensures fault { (fault : TheFault) → fault_of (map terms_of entries.now) ≡ Some fault → result ≡ Err fault }
        ensures memory { fault_of (map terms_of entries.now) ≡ None → IfErr result (λ fault. fault ≡ OpenFault.OutOfMemory) };

    /// Classifies a datagram that arrived from `peer` at this time, in microseconds. Doesn't allocate.
    fn classify(&self, peer: Peer, bytes: &[u8], moment: u64) -> Class
        requires { moment < 2 ^ 62 }
        ensures class { LobbyAnswers knows self.now class (datagram peer bytes.now) moment result }
        // A datagram for a route has a whole header.
        ensures header { (r : ℕ) → result ≡ Class.Route r → 16 ≤ length bytes.now };

    /// A datagram for a route is for a route that exists.
    ghost named: { (secret : List ℕ) (names : List RouteName) (d : Datagram) (moment r : ℕ) → class secret names d moment ≡ ForRoute r → r < length names };
}

/// A lobby whose routes open and close while it runs.
pub trait Doors: Lobby {
    /// Whether there is a route with this index, and it is visible. Doesn't allocate.
    fn shows(&self, r: usize) -> bool
        ensures { (secret : List ℕ) (names : List RouteName) → Self.knows self.now secret names → result ≡ is_shown_at names r };

    /// Returns the first fault because of which a route of this name can't be added, memory aside. `within` states
    /// whether the numbers of its entry are within their limits. Doesn't allocate.
    fn fault(&self, name: &[u8], within: bool) -> Option<OpenFault>
        ensures fault { (secret : List ℕ) (names : List RouteName) → Self.knows self.now secret names → result ≡ fault_of_name names name.now within }
        // Independently of the names in force, the name and the numbers have no fault.
        ensures formed { result ≡ None → is_name name.now ≡ true }
        ensures limits { result ≡ None → within ≡ true };

    /// Adds the name of a route, which is visible. Allocates copies of the name. An error leaves the names unchanged.
    fn add(&mut self, alloc: Global, entry: &Entry) -> Result<(), OpenFault>
        ensures added { IfOk result
            (λ _. (secret : List ℕ) (names : List RouteName) → Self.knows self.old secret names
            → fault_of_adding names (terms_of entry.now) ≡ None
            → Self.knows self.new secret (added (terms_of entry.now) names)) }
        ensures err { OnErr result ((secret : List ℕ) (names : List RouteName) → Self.knows self.old secret names → Self.knows self.new secret names) };

    /// Hides a route: from now on no datagram is for it, and its name may be used again. Doesn't allocate.
    fn hide(&mut self, r: usize)
        ensures { (secret : List ℕ) (names : List RouteName)
            → r < length names → Self.knows self.old secret names → Self.knows self.new secret (hidden_at r names) };
}

/// A route as the hub drives it: items in, replies out.
pub trait RouteStep: Drop {
    /// The replies of a route with these terms and this index to the newest of these items. The newest item comes
    /// first.
    ghost reply: { Terms → (index : ℕ) → List TheItem → List Datagram };

    /// The route's state is the one that these terms, this index and these items determine, the waiting replies aside.
    ghost stands: { Self → Terms → (index : ℕ) → List TheItem → Type 0 };

    /// The replies that wait, the oldest first.
    ghost waiting: { Self → List Datagram };

    /// Opens a route without items. Allocates everything that the route will ever need; the only error is a failed
    /// allocation. `index` is below 511.
    fn open(alloc: Global, entry: &Entry, index: usize) -> Result<Self, OpenFault>
        requires name { is_name (terms_of entry.now).name ≡ true }
        requires limits { in_limits (terms_of entry.now) ≡ true }
        requires index { index < 511 }
        ensures stands { IfOk result (λ route. stands route (terms_of entry.now) index []) }
        ensures none_waits { IfOk result (λ route. waiting route ≡ []) }
        ensures memory { IfErr result (λ fault. fault ≡ OpenFault.OutOfMemory) };

    /// Processes one item. Returns the number of replies that now wait. Must only be called if no reply waits. Doesn't
    /// allocate.
    fn step(&mut self, item: Item) -> usize
        requires none_waits { waiting self.old ≡ [] }
        requires timely { moment_of (input_of item) < 2 ^ 62 }
        ensures count { result ≡ length (waiting self.new) }
        ensures stands { (e : Terms) (index : ℕ) (items : List TheItem) → stands self.old e index items → stands self.new e index (input_of item ∷ items) }
        ensures replies { RouteReplies stands self.old reply (input_of item) (waiting self.new) };

    /// Whether a reply waits. A turn calls this first: it must know this before it knows whether the outbox has room.
    fn waits(&self) -> bool
        ensures { (result ≡ true) ↔ (0 < length (waiting self.now)) };

    /// Puts the oldest waiting reply into `place`, by exchanging boxes; the box that was in `place` is kept for a later
    /// reply. Returns false and changes nothing if none waits. Doesn't allocate.
    fn next_reply(&mut self, place: &mut Box<Reply>) -> bool
        ensures first { result ≡ true → waiting self.old ≡ written place.new.value ∷ waiting self.new }
        ensures none { result ≡ false → (waiting self.old ≡ []) × (self.new ≡ self.old) × (place.new ≡ place.old) }
        ensures stands { (e : Terms) (index : ℕ) (items : List TheItem) → stands self.old e index items → stands self.new e index items };
}
