//! A gateway: its lobby, and all routes with their queues.

ghost use Rattle.std.specs.Prelude.{◌≡◌, ℕ, ◌+◌, ◌<◌, ◌≤◌, ◌^◌, List, [], false, None, Some, Err, IfOk, IfErr, OnErr, IfSome, IfNone, map};
ghost use Rattle.std.specs.Prelude.{take, drop, length, is_err, if◌then◌else◌};
ghost use Rattle.srt_packet.specs.Held.{IsPacketOrNothing};
ghost use Rattle.srt_hub.specs.World.{offered_to};

use crate::answers::{Arrived, Closing, OutOfMemory, Ticked};
use crate::items::{Timely, copied};
use crate::lanes::{Lane, Standing};
use crate::parts::{Doors, Lobby, RouteStep};
use srt_cookie::Secret;
use srt_lobby::{Cause, Class};
use srt_types::product_limits::MAX_ROUTES;
use srt_types::protocol_limits::MAX_DATAGRAM;
use srt_types::{Entry, Item, OpenFault, Peer, Turned};
use std::alloc::Global;

fn ticked(room: bool) -> Ticked
    ensures { result ≡ (if room then Ticked.Accepted else Ticked.Full) }
{
    if room { Ticked::Accepted } else { Ticked::Full }
}

fn offered(r: usize, room: bool) -> Arrived
    ensures { result ≡ offered_to r room }
{
    if room {
        Arrived::Accepted(r)
    } else {
        Arrived::Full(r)
    }
}

/// A gateway as its history: the secret, the entries and the events so far. Ghost members only.
pub trait Gateway {
    ghost use Rattle.srt_types.specs.Terms.{Terms};
    ghost use Rattle.srt_hub.specs.World.{Event};

    /// The number of routes.
    ghost routes: { Self → ℕ };

    /// The gateway was opened with this secret and these entries, and then these events happened, the newest first.
    ghost stands: { Self → (secret : List ℕ) → (entries : List Terms) → (events : List Event) → Type 0 };
}

/// A gateway: a lobby `L`, and a route `R` with its queues for each entry.
#[derive(Drop)]
pub struct Hub<R: RouteStep, L: Lobby> {
    lobby: L,
    lanes: Vec<Lane<R>>,
}

impl<R: RouteStep, L: Lobby> Gateway for Hub<R, L> {
    ghost use Rattle.srt_hub.specs.World.{names_in, world_after};
    ghost use Rattle.srt_hub.specs.Hubs.{AreLanes, IsHub};

    ghost routes = { λ hub. length hub.lanes.items };

    ghost stands = { λ hub secret entries events.
        let w = world_after (L.class secret) R.reply entries events in
        IsHub (L.knows hub.lobby secret (names_in w)) (AreLanes ⟦<Lane<R> as Standing>⟧.is w hub.lanes.items) };
}

impl<R: RouteStep, L: Lobby> Hub<R, L> {
    ghost use Rattle.srt_types.specs.declared.shared.OpenFault.{OpenFault as TheFault};
    ghost use Rattle.srt_cookie.specs.Cookie.{secret_bytes};
    ghost use Rattle.srt_lobby.specs.Opening.{fault_of};
    ghost use Rattle.srt_types.specs.Terms.{terms_of};
    ghost use Rattle.srt_hub.specs.World.{Arrives, Ticks, Turns, Sends, tick, turn};
    ghost use Rattle.srt_hub.specs.Calls.{HasRoutes, Happened, ArrivalAnswers, RouteAnswers, datagram, datagram_at, first_out};

    /// Opens the gateway of these entries, 1 to 511. Allocates everything except the copies of datagrams. Errors:
    /// `Names` if a name has a wrong form or appears twice, else `Limits` if the number of entries or a number of an
    /// entry is outside its limits, else `OutOfMemory`. After an error nothing is kept.
    pub fn open(alloc: Global, secret: Secret, entries: &[Entry]) -> Result<Hub<R, L>, OpenFault>
        ensures stands { IfOk result (λ hub. ⟦<Hub<R, L> as Gateway>⟧.stands hub (secret_bytes secret) (map terms_of entries.now) []) }
        ensures routes { IfOk result (λ hub. ⟦<Hub<R, L> as Gateway>⟧.routes hub ≡ length entries.now) }
        ensures fault { (fault : TheFault) → fault_of (map terms_of entries.now) ≡ Some fault → result ≡ Err fault }
        ensures memory { fault_of (map terms_of entries.now) ≡ None → IfErr result (λ fault. fault ≡ OpenFault.OutOfMemory) }
    {
        let lobby = L::open(alloc, secret, entries)?;
        let Ok(mut lanes) = Vec::with_capacity(alloc, entries.len()) else {
            return Err(OpenFault::OutOfMemory);
        };
        let mut r = 0;
        for entry in entries {
            let lane = match Lane::open(alloc, entry, r) {
                Ok(lane) => lane,
                Err(fault) => return Err(fault),
            };
            let Ok(()) = lanes.push(lane) else {
                return Err(OpenFault::OutOfMemory);
            };
            r += 1;
        }
        Ok(Hub { lobby, lanes })
    }

    /// Returns the number of routes; their indexes are the numbers below it. O(1).
    pub fn routes(&self) -> usize
        ensures routes { result ≡ ⟦<Hub<R, L> as Gateway>⟧.routes self.now }
        ensures number { HasRoutes ⟦<Hub<R, L> as Gateway>⟧.stands self.now L.class R.reply result }
    {
        self.lanes.len()
    }

    /// Classifies a datagram, and puts it into its route's inbox if it is for a route. `moment` is in microseconds.
    /// Only a datagram for a route is copied; that copy is allocated even if the inbox turns out to be full. The only
    /// error is that its allocation fails, and then nothing has changed. Linear in the length of the datagram.
    pub fn arrive(
        &mut self,
        alloc: Global,
        peer: Peer,
        bytes: &[u8],
        moment: u64,
    ) -> Result<Arrived, OutOfMemory>
        requires { moment < 2 ^ 62 }
        ensures stands { Happened ⟦<Hub<R, L> as Gateway>⟧.stands self.old self.new (Arrives (datagram peer bytes.now) moment (is_err result)) }
        ensures answer { ArrivalAnswers ⟦<Hub<R, L> as Gateway>⟧.stands self.old L.class R.reply (datagram peer bytes.now) moment result }
        ensures err { OnErr result (self.new ≡ self.old) }
        ensures routes { ⟦<Hub<R, L> as Gateway>⟧.routes self.new ≡ ⟦<Hub<R, L> as Gateway>⟧.routes self.old }
    {
        match self.lobby.classify(peer, bytes, moment) {
            Class::Answer(answer) => Ok(Arrived::Answer(answer)),
            Class::Dropped(cause) => Ok(Arrived::Dropped(cause)),
            Class::Route(r) => {
                let Ok(item) = copied(alloc, peer, bytes, moment) else {
                    return Err(OutOfMemory);
                };
                // The lobby returns no index beyond the routes.
                if r >= self.lanes.len() {
                    return Ok(Arrived::Dropped(Cause::UnknownId));
                }
                Ok(offered(r, self.lanes[r].offer(item)))
            }
        }
    }

    /// Puts a tick with this time, in microseconds, into the inbox of route `r`. Returns `Full` and drops the tick if
    /// the inbox is full. O(1). Doesn't allocate.
    pub fn tick(&mut self, r: usize, moment: u64) -> Ticked
        requires route { r < ⟦<Hub<R, L> as Gateway>⟧.routes self.old }
        requires moment { moment < 2 ^ 62 }
        ensures stands { Happened ⟦<Hub<R, L> as Gateway>⟧.stands self.old self.new (Ticks r moment) }
        ensures answer { RouteAnswers ⟦<Hub<R, L> as Gateway>⟧.stands self.old L.class R.reply r tick result }
        ensures routes { ⟦<Hub<R, L> as Gateway>⟧.routes self.new ≡ ⟦<Hub<R, L> as Gateway>⟧.routes self.old }
    {
        let item = Timely {
            item: Item::Tick { moment },
        };
        ticked(self.lanes[r].offer(item))
    }

    /// One turn of route `r`: moves the oldest waiting reply to the outbox if there is one, else processes the oldest
    /// item of the inbox. Doesn't allocate.
    pub fn turn(&mut self, r: usize) -> Turned
        requires { r < ⟦<Hub<R, L> as Gateway>⟧.routes self.old }
        ensures stands { Happened ⟦<Hub<R, L> as Gateway>⟧.stands self.old self.new (Turns r) }
        ensures answer { RouteAnswers ⟦<Hub<R, L> as Gateway>⟧.stands self.old L.class R.reply r turn result }
        ensures routes { ⟦<Hub<R, L> as Gateway>⟧.routes self.new ≡ ⟦<Hub<R, L> as Gateway>⟧.routes self.old }
    {
        self.lanes[r].turn()
    }

    /// Removes the oldest reply from the outbox of route `r` and writes its packet to the front of `out`. Returns its
    /// receiver and its length in bytes; None if the outbox is empty. The rest of `out` doesn't change. Doesn't
    /// allocate.
    pub fn send(&mut self, r: usize, out: &mut [u8; MAX_DATAGRAM]) -> Option<(Peer, usize)>
        requires { r < ⟦<Hub<R, L> as Gateway>⟧.routes self.old }
        ensures stands { Happened ⟦<Hub<R, L> as Gateway>⟧.stands self.old self.new (Sends r) }
        ensures answer { RouteAnswers ⟦<Hub<R, L> as Gateway>⟧.stands self.old L.class R.reply r first_out (datagram_at out.new result) }
        ensures within { IfSome result (λ sent. sent.1 ≤ 1472) }
        ensures kept { IfSome result (λ sent. drop sent.1 out.new ≡ drop sent.1 out.old) }
        ensures packet { IfSome result (λ sent. IsPacketOrNothing (take sent.1 out.new)) }
        ensures none { IfNone result (out.new ≡ out.old) }
        ensures routes { ⟦<Hub<R, L> as Gateway>⟧.routes self.new ≡ ⟦<Hub<R, L> as Gateway>⟧.routes self.old }
    {
        self.lanes[r].send(out)
    }
}

impl<R: RouteStep, L: Doors> Hub<R, L> {
    ghost use Rattle.srt_types.specs.Terms.{Terms, terms_of};
    ghost use Rattle.srt_hub.specs.World.{Opens, Closes};
    ghost use Rattle.srt_types.specs.Entries.{in_limits};
    ghost use Rattle.srt_hub.specs.Calls.{Happened, IsUnchanged, FaultAnswers, OpeningAnswers, ClosingAnswers, wants_memory};

    /// Returns the first fault because of which a route of this name can't be opened, memory aside: `Names` or
    /// `Limits`, as `open_route`. `within` states whether the numbers of its entry are within their limits. Doesn't
    /// allocate, not even for a copy of the name.
    pub fn opening_fault(&self, name: &[u8], within: bool) -> Option<OpenFault>
        ensures fault { FaultAnswers ⟦<Hub<R, L> as Gateway>⟧.stands self.now L.class R.reply name.now within result }
        // An opening that has a fault changes nothing.
        ensures stands { IfSome result
            (λ _. (e : Terms)
            → e.name ≡ name.now → in_limits e ≡ within → Happened ⟦<Hub<R, L> as Gateway>⟧.stands self.now self.now (Opens e false)) }
    {
        self.lobby.fault(name, within)
    }

    /// Opens one more route, which is visible. Returns its index, the next one; an index is never used again. Allocates
    /// everything that the route will need, except for copies of datagrams. Errors: `Names` if the name has a wrong
    /// form or is that of a visible route, else `Limits` if there are 511 routes or a number is outside its limits,
    /// else `OutOfMemory`. After an error nothing has changed.
    pub fn open_route(&mut self, alloc: Global, entry: &Entry) -> Result<usize, OpenFault>
        ensures stands { Happened ⟦<Hub<R, L> as Gateway>⟧.stands self.old self.new (Opens (terms_of entry.now) (wants_memory result)) }
        ensures answer { OpeningAnswers ⟦<Hub<R, L> as Gateway>⟧.stands self.old L.class R.reply (terms_of entry.now) result }
        ensures index { IfOk result (λ r. r ≡ ⟦<Hub<R, L> as Gateway>⟧.routes self.old) }
        ensures routes { IfOk result (λ r. ⟦<Hub<R, L> as Gateway>⟧.routes self.new ≡ r + 1) }
        ensures err { OnErr result (⟦<Hub<R, L> as Gateway>⟧.routes self.new ≡ ⟦<Hub<R, L> as Gateway>⟧.routes self.old) }
        ensures unchanged { OnErr result (IsUnchanged ⟦<Hub<R, L> as Gateway>⟧.stands self.old self.new) }
    {
        if let Some(fault) = self.lobby.fault(entry.name.as_bytes(), entry.in_limits()) {
            return Err(fault);
        }
        let r = self.lanes.len();
        // The lobby has found that there is an index left.
        if r >= MAX_ROUTES {
            return Err(OpenFault::Limits);
        }
        let Ok(()) = self.lanes.reserve(1) else {
            return Err(OpenFault::OutOfMemory);
        };
        let Ok(lane) = Lane::open(alloc, entry, r) else {
            return Err(OpenFault::OutOfMemory);
        };
        let Ok(()) = self.lobby.add(alloc, entry) else {
            return Err(OpenFault::OutOfMemory);
        };
        let _ = self.lanes.push(lane);
        Ok(r)
    }

    /// Closes route `r` at this time, in microseconds: puts the item that ends all its sessions into its inbox, and
    /// hides it. From then on no datagram is for it, and its name may be used again; its ticks, turns and sends
    /// continue. Returns `Closed` if the route was already hidden, else `Full` if its inbox is full; both change
    /// nothing. O(1). Doesn't allocate.
    pub fn close_route(&mut self, r: usize, moment: u64) -> Closing
        requires route { r < ⟦<Hub<R, L> as Gateway>⟧.routes self.old }
        requires moment { moment < 2 ^ 62 }
        ensures stands { Happened ⟦<Hub<R, L> as Gateway>⟧.stands self.old self.new (Closes r moment) }
        ensures answer { ClosingAnswers ⟦<Hub<R, L> as Gateway>⟧.stands self.old L.class R.reply r result }
        ensures routes { ⟦<Hub<R, L> as Gateway>⟧.routes self.new ≡ ⟦<Hub<R, L> as Gateway>⟧.routes self.old }
    {
        if !self.lobby.shows(r) {
            return Closing::Closed;
        }
        let item = Timely {
            item: Item::Close { moment },
        };
        if !self.lanes[r].offer(item) {
            return Closing::Full;
        }
        self.lobby.hide(r);
        Closing::Accepted
    }
}
