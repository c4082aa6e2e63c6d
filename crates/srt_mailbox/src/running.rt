//! A route with its ends of both queues, which a worker has while it has claimed the route, and one step of it.

ghost use Rattle.std.specs.Prelude.{◌≡◌, ◌≢◌, ◌⊎◌, ◌<◌, ◌≤◌, ◌+◌, ℕ, List, [], ◌∷◌, Some, None, IfSome, length, vec_capacity, option_map, true, false};
ghost use Rattle.srt_types.specs.Terms.{Terms, terms_of};
ghost use Rattle.srt_types.specs.Items.{Item as TheItem};
ghost use Rattle.srt_route.specs.Route.{after};
ghost use Rattle.srt_route.specs.Stands.{stands, waiting};
ghost use Rattle.srt_route.specs.Written.{written};
ghost use Rattle.srt_mailbox.specs.Counts.{counted, Grew};
ghost use Rattle.srt_mailbox.specs.Evidence.{refused};
ghost use Rattle.srt_mailbox.specs.Runs.{run, waiting_at, HasGivenBoxes, Replays, TurnedAs};
ghost use Rattle.srt_mailbox.specs.Cells.{CellIdentity, Bears};
ghost use Rattle.srt_mailbox.specs.Looks.{WasShown};
ghost use Rattle.srt_mailbox.specs.Visits.{queried_in, queried_last, turns_of, EndedAs, ServedAs};
ghost use Rattle.srt_mailbox.specs.declared.gates.Served.TheVariants.{GateRefused, ClaimedElsewhere};

use crate::evidence::QueueRefusals;
use crate::gates::{Gate, Served, Visit};
use crate::inbox::InboxReceiver;
use crate::observer::Observer;
use crate::outbox::OutboxSender;
use crate::outbox_rule::Parcel;
use crate::spares::Boxes;
use srt_route::{Reply, Route};
use srt_types::protocol_limits::MAX_PAYLOAD;
use srt_types::{Entry, Item, Turned};
use std::marker::Model;
use std::snapshot::Snapshot;
use std::sync::Wait;

/// A route's ends of its two queues, and its empty boxes.
#[derive(Drop)]
pub(crate) struct RouteEnds {
    /// The end of the inbox.
    pub receiver: InboxReceiver,
    /// The end of the outbox.
    pub sender: OutboxSender,
    /// The free boxes for replies.
    pub boxes: Boxes,
}

/// A route with its ends of the inbox and of the outbox, and its empty boxes.
#[derive(Drop)]
pub struct Running {
    receiver: InboxReceiver,
    sender: OutboxSender,
    boxes: Boxes,
    // a reply that a full outbox returned; it is the oldest that waits
    held: Option<Box<Reply>>,
    // the body of a processed datagram, which returns to the poller with the next reply
    buffer: Option<Vec<u8>>,
    // the number of waiting replies, including `held`; stored here so that a step needn't read it from the route
    waiting: usize,
    // the number of messages received; saturates at 2^64 - 1
    taken: u64,
    // how often the inbox was found empty and the outbox full
    refusals: QueueRefusals,
    // written and never read: they keep the compiler from removing two reads of the route; see `apply_item`
    _clock: u64,
    _publishers: usize,
    // not in a separate box, whose address an event would have to read first
    route: Route,
    // the entry and the index that the route was opened with, only for contracts: no bytes at run time
    entry: Snapshot<Entry>,
    index: Snapshot<usize>,
}

impl Model for Running {
    ghost use Rattle.std.specs.Prelude.{◌≡◌, length};
    ghost use Rattle.srt_types.specs.Terms.{terms_of};
    ghost use Rattle.srt_route.specs.Stands.{stands};
    ghost use Rattle.srt_mailbox.specs.Counts.{counted};
    ghost use Rattle.srt_mailbox.specs.Inbox.{applied};
    ghost use Rattle.srt_mailbox.specs.Runs.{Run, run, waiting_at, HasGivenBoxes, Replays};

    ghost Value = { Run };

    ghost view = { λ s. run (terms_of s.entry.value) s.index.value s.receiver s.sender (waiting_at s.held s.route) s.refusals };

    // The route is in the state that the received messages lead to, and its replies are those that it would make
    // alone. If it was closed and nothing of it waits, it has given back its free boxes.
    ghost invariant = { λ s. stands s.route (terms_of s.entry.value) s.index.value (applied s.receiver.taken) ×
        Replays (run (terms_of s.entry.value) s.index.value s.receiver s.sender (waiting_at s.held s.route) s.refusals) ×
        (s.waiting ≡ length (waiting_at s.held s.route)) × (s.taken ≡ counted (length s.receiver.taken)) ×
        HasGivenBoxes (terms_of s.entry.value) s.index.value (applied s.receiver.taken) s.waiting s.boxes };
}

/// Maximum length of a packet's body, in bytes: that of a data packet's payload.
pub const BUFFER_ROOM: usize = MAX_PAYLOAD;

// Keeps the body of a processed message, if it has room for the body of any packet. It returns to the thread that
// allocated it: memory that one thread allocates and another one frees costs both of them a lock of the allocator.
fn keep_buffer(kept: &mut Option<Vec<u8>>, item: Item)
    ensures { (kept.new ≡ kept.old) ⊎ IfSome kept.new (λ buffer. 1456 ≤ vec_capacity buffer) }
{
    let Item::Datagram {
        peer: _,
        moment: _,
        head: _,
        body,
    } = item
    else {
        return;
    };
    if body.capacity() < BUFFER_ROOM {
        return;
    }
    *kept = Some(body);
}

// Returns the oldest waiting reply, in its box. There must be one.
fn next_waiting<R: Wait>(
    rt: &R,
    held: &mut Option<Box<Reply>>,
    route: &mut Route,
    boxes: &mut Boxes,
) -> Box<Reply>
    requires { 0 < length (waiting_at held.old route.old) }
    ensures stands { (e : Terms) (index : ℕ) (items : List TheItem) → stands route.old e index items → stands route.new e index items }
    ensures held { held.new ≡ None }
    ensures first { waiting_at held.old route.old ≡ written result.value ∷ waiting route.new }
{
    if let Some(reply) = held.take() {
        return reply;
    }
    let mut place = boxes.empty_box(rt);
    let _ = route.next_reply(&mut place);
    place
}

// Gives back the free boxes of a route that was closed, if no reply waits: it replies to nothing more.
fn discard_if_over(route: &Route, waiting: usize, boxes: &mut Boxes)
    ensures over { (e : Terms) (index : ℕ) (items : List TheItem) → stands route.now e index items
        → HasGivenBoxes e index items waiting boxes.new }
    ensures open { (e : Terms) (index : ℕ) (items : List TheItem) → stands route.now e index items
        → (after e index items).is_closed ≡ false → boxes.new ≡ boxes.old }
{
    if waiting == 0 && route.is_closed() {
        boxes.discard();
    }
}

impl Running {
    /// Makes a route that has processed no message, with unused ends.
    pub(crate) fn new(ends: RouteEnds, route: Route, entry: &Entry, index: usize) -> Running
        requires fresh { stands route (terms_of entry.now) index [] }
        requires none_waits { waiting route ≡ [] }
        requires empty { (ends.receiver.taken ≡ []) × (ends.sender.put ≡ []) }
        ensures { result ≡ run (terms_of entry.now) index ends.receiver ends.sender [] (refused 0 0) }
    {
        let RouteEnds {
            receiver,
            sender,
            boxes,
        } = ends;
        Running {
            receiver,
            sender,
            boxes,
            route,
            held: None,
            buffer: None,
            waiting: 0,
            taken: 0,
            refusals: QueueRefusals::new(),
            _clock: 0,
            _publishers: 0,
            entry: Snapshot::of(entry),
            index: Snapshot::of(&index),
        }
    }

    // Moves the oldest waiting reply to the outbox, or returns `Blocked` if the outbox is full.
    fn move_reply<R: Wait>(&mut self, rt: &R) -> Turned
        requires { 0 < length self.old.waiting }
        ensures { TurnedAs result self.old self.new }
    {
        let reply = next_waiting(rt, &mut self.held, &mut self.route, &mut self.boxes);
        let parcel = Parcel::new(reply, self.buffer.take());
        match self.sender.put(rt, parcel) {
            Ok(()) => {
                self.waiting -= 1;
                discard_if_over(&self.route, self.waiting, &mut self.boxes);
                Turned::Moved
            }
            Err((back, full)) => {
                let (reply, buffer) = back.into_parts();
                self.held = Some(reply);
                self.buffer = buffer;
                self.refusals.note_full(full);
                Turned::Blocked
            }
        }
    }

    // Processes the oldest message of the inbox, or returns `Idle` if the inbox is empty.
    fn apply_item<R: Wait>(&mut self, rt: &R) -> Turned
        requires { self.old.waiting ≡ [] }
        ensures { TurnedAs result self.old self.new }
    {
        // The first values that a message needs of its route are read here, so that the processor fetches them from
        // memory while it fetches the inbox: a take makes locked operations, and no later read begins before they are
        // complete. The two values are stored because the compiler removes a read whose value is unused (there is no
        // `black_box` that keeps it); they are never read.
        self._clock = self.route.clock();
        self._publishers = self.route.publishers();
        match self.receiver.take(rt) {
            Ok(entry) => {
                let item = entry.into_item();
                self.waiting = self.route.step(&item);
                self.taken = self.taken.saturating_add(1);
                keep_buffer(&mut self.buffer, item);
                discard_if_over(&self.route, self.waiting, &mut self.boxes);
                Turned::Applied
            }
            Err(empty) => {
                self.refusals.note_empty(empty);
                Turned::Idle
            }
        }
    }

    /// Makes one step: moves the oldest waiting reply to the outbox, or, if none waits, processes the oldest message
    /// of the inbox. `Blocked` (full outbox) and `Idle` (empty inbox) change only the counter of such refusals.
    /// Doesn't allocate.
    pub fn turn<R: Wait>(&mut self, rt: &R) -> Turned
        ensures { TurnedAs result self.old self.new }
    {
        if self.waiting > 0 {
            self.move_reply(rt)
        } else {
            self.apply_item(rt)
        }
    }

    /// Makes one step if the gate permits it, and none if it refuses (`GateRefused`). The gate is queried for the
    /// index `route`. Never returns `ClaimedElsewhere`. Doesn't allocate.
    pub fn serve<R: Wait, G: Gate>(&mut self, rt: &R, route: usize, gate: &mut G) -> Served
        ensures turned { ServedAs result self.old self.new }
        ensures held { result ≡ GateRefused → Grew (G.held gate.old) (G.held gate.new) }
        ensures requested { G.requested gate.new ≡ option_map (queried_last route result) (G.requested gate.old) }
    {
        if gate.allows(route) {
            Served::Turned(self.turn(rt))
        } else {
            Served::GateRefused
        }
    }

    /// Makes at most `most` steps, until one finds no work or a full outbox, or the gate refuses one; it is queried
    /// before each, for the index `route`. Doesn't allocate.
    pub fn visit<R: Wait, G: Gate>(
        &mut self,
        rt: &R,
        route: usize,
        gate: &mut G,
        most: u32,
    ) -> Visit
        ensures bears { (n : CellIdentity) → Bears n self.old → Bears n self.new }
        ensures most { result.turns ≤ most }
        ensures part { result.moved ≤ result.turns }
        ensures moved { length self.new.outbox.put ≡ length self.old.outbox.put + result.moved }
        ensures turns { turns_of self.new ≡ turns_of self.old + result.turns }
        ensures all { result.end ≡ None → result.turns ≡ most }
        ensures held { result.end ≡ Some GateRefused → Grew (G.held gate.old) (G.held gate.new) }
        ensures passed { result.end ≢ Some GateRefused → G.held gate.new ≡ G.held gate.old }
        ensures claimed { result.end ≢ Some ClaimedElsewhere }
        ensures ended { EndedAs result.end self.old self.new }
        ensures requested { G.requested gate.new ≡ option_map (queried_in route result) (G.requested gate.old) }
    {
        let mut moved = 0;
        for turns in 0..most {
            if !gate.allows(route) {
                return Visit {
                    turns,
                    moved,
                    end: Some(Served::GateRefused),
                };
            }
            match self.turn(rt) {
                Turned::Applied => {}
                Turned::Moved => moved += 1,
                Turned::Idle => {
                    return Visit {
                        turns,
                        moved,
                        end: Some(Served::Turned(Turned::Idle)),
                    };
                }
                Turned::Blocked => {
                    return Visit {
                        turns,
                        moved,
                        end: Some(Served::Turned(Turned::Blocked)),
                    };
                }
            }
        }
        Visit {
            turns: most,
            moved,
            end: None,
        }
    }

    /// Shows the route once to `look`, with the number of waiting replies. Changes nothing.
    pub fn show<L: Observer>(&self, look: &mut L)
        ensures { WasShown self.now (L.noted look.old look.new) }
    {
        look.look(&self.route, self.waiting);
    }

    /// States that the replies put, followed by those that wait, are all that the route, running alone, replies to the
    /// messages received, whichever workers made its steps. Does nothing: its contract is the statement.
    pub fn replays(&self)
        ensures { Replays self.now }
    {
        let _waiting = self.waiting;
    }

    /// Consumes the route. Returns its two ends, the number of messages received, and the number of waiting replies.
    pub(crate) fn into_parts(self) -> EndedRoute
        ensures ends { (result.receiver ≡ self.inbox) × (result.sender ≡ self.outbox) }
        ensures taken { result.taken ≡ counted (length self.inbox.taken) }
        ensures waiting { result.waiting ≡ length self.waiting }
        ensures replays { Replays self }
    {
        let Running {
            receiver,
            sender,
            boxes: _,
            route: _,
            held: _,
            buffer: _,
            waiting,
            taken,
            refusals: _,
            _clock: _,
            _publishers: _,
            entry: _,
            index: _,
        } = self;
        EndedRoute {
            receiver,
            sender,
            taken,
            waiting,
        }
    }
}

/// The parts of a finalised route that its final counters need.
#[derive(Drop)]
pub(crate) struct EndedRoute {
    /// The end of the inbox.
    pub receiver: InboxReceiver,
    /// The end of the outbox.
    pub sender: OutboxSender,
    /// The number of messages received, saturated at 2^64 - 1.
    pub taken: u64,
    /// The number of waiting replies.
    pub waiting: usize,
}
