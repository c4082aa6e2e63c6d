//! Evidence that a queue was full, or empty, at some time during a call. Only the functions of this file make
//! evidence, and only if the queue itself refused.
//!
//! They are generic over the queue's rule. Under an unknown rule, only the queue can show that it held n values, so a
//! body that reports a queue as full or empty without a call of the queue isn't proved.

ghost use Rattle.std.specs.Prelude.{◌≡◌, IfErr, IfSome, MatchResult};
ghost use Rattle.crossbeam_queue.specs.Fifo.{Held, Learns, Pops, Pushes};
ghost use Rattle.crossbeam_queue.specs.Passes.{view, IsPassOf, IsSamePass, ruled_capacity};
ghost use Rattle.srt_mailbox.specs.Evidence.{QueriedBy};

use crate::inbox_rule::{InboxEntry, InboxView};
use crate::outbox_rule::{OutboxView, Parcel};
use crossbeam_queue::protocol::{Lesson, Outcome, Protocol};
use crossbeam_queue::{Pass, RuledArrayQueue};
use std::fmt;
use std::marker::Model;
use std::snapshot::Snapshot;
use std::sync::Wait;

/// Evidence that a queue was full at some time during a call. It has no bytes, and can't be copied.
pub struct WasFull<T, V> {
    requested: Snapshot<Pass<T, V>>,
}

impl<T, V> Drop for WasFull<T, V> {
    fn drop(self) {
        let Self { requested: _ } = self;
    }
}

/// Evidence that a queue was empty at some time during a call. It has no bytes, and can't be copied.
pub struct WasEmpty<T, V> {
    requested: Snapshot<Pass<T, V>>,
}

impl<T, V> Drop for WasEmpty<T, V> {
    fn drop(self) {
        let Self { requested: _ } = self;
    }
}

/// Pushes a value. The queue returns it only if it was full at some time during the call; then the evidence states so.
#[inline(always)]
pub fn push<M, T, V, P, R>(
    queue: &RuledArrayQueue<T, V, P>,
    rt: &R,
    pass: &mut Pass<T, V>,
    value: T,
) -> Result<(), (T, WasFull<T, V>)>
where
    M: Outcome<T, V> + Lesson<T, V>,
    P: Protocol<T, V>,
    R: Wait,
    requires queue { IsPassOf queue.now pass.old }
    requires rule { Pushes P.holds (ruled_capacity queue.now) pass.old.id (view pass.old) value (M.then (view pass.old) value) ×
        Learns P.holds pass.old.id (view pass.old) (M.fact (view pass.old)) }
    ensures queue { IsSamePass pass.old pass.new }
    ensures rule { MatchResult result (λ _. M.then (view pass.old) value (view pass.new))
        (λ back. (back.0 ≡ value) × (view pass.new ≡ view pass.old) × Held (ruled_capacity queue.now) (M.fact (view pass.old))) }
    ensures evidence { IfErr result (λ back. QueriedBy back.1.requested.value pass.old) }
{
    match queue.push_as::<M, R>(rt, pass, value) {
        Ok(()) => Ok(()),
        Err(back) => Err((
            back,
            WasFull {
                requested: Snapshot::of(pass),
            },
        )),
    }
}

/// Returns evidence that the queue is full, if it is. Changes nothing, and only reads.
#[inline(always)]
pub fn find_full<M, T, V, P>(
    queue: &RuledArrayQueue<T, V, P>,
    pass: &mut Pass<T, V>,
) -> Option<WasFull<T, V>>
where
    M: Lesson<T, V>,
    P: Protocol<T, V>,
    requires queue { IsPassOf queue.now pass.old }
    requires rule { Learns P.holds pass.old.id (view pass.old) (M.fact (view pass.old)) }
    ensures queue { IsSamePass pass.old pass.new × (view pass.new ≡ view pass.old) }
    ensures rule { IfSome result (λ _. Held (ruled_capacity queue.now) (M.fact (view pass.old))) }
    ensures evidence { IfSome result (λ full. QueriedBy full.requested.value pass.old) }
{
    if queue.is_full_as::<M>(pass) {
        return Some(WasFull {
            requested: Snapshot::of(pass),
        });
    }
    None
}

/// Pops the oldest value. The error occurs only if the queue was empty at some time during the call; then the evidence
/// states so.
#[inline(always)]
pub fn pop<M, T, V, P, R>(
    queue: &RuledArrayQueue<T, V, P>,
    rt: &R,
    pass: &mut Pass<T, V>,
) -> Result<T, WasEmpty<T, V>>
where
    M: Outcome<T, V> + Lesson<T, V>,
    P: Protocol<T, V>,
    R: Wait,
    requires queue { IsPassOf queue.now pass.old }
    requires rule { Pops P.holds pass.old.id (view pass.old) (M.then (view pass.old)) × Learns P.holds pass.old.id (view pass.old) (M.fact (view pass.old)) }
    ensures queue { IsSamePass pass.old pass.new }
    ensures rule { MatchResult result (λ value. M.then (view pass.old) value (view pass.new))
        (λ _. (view pass.new ≡ view pass.old) × Held 0 (M.fact (view pass.old))) }
    ensures evidence { IfErr result (λ empty. QueriedBy empty.requested.value pass.old) }
{
    match queue.pop_as::<M, R>(rt, pass) {
        Some(value) => Ok(value),
        None => Err(WasEmpty {
            requested: Snapshot::of(pass),
        }),
    }
}

/// Returns evidence that the queue is empty, if it is. Changes nothing, and only reads.
#[inline(always)]
pub fn find_empty<M, T, V, P>(
    queue: &RuledArrayQueue<T, V, P>,
    pass: &mut Pass<T, V>,
) -> Option<WasEmpty<T, V>>
where
    M: Lesson<T, V>,
    P: Protocol<T, V>,
    requires queue { IsPassOf queue.now pass.old }
    requires rule { Learns P.holds pass.old.id (view pass.old) (M.fact (view pass.old)) }
    ensures queue { IsSamePass pass.old pass.new × (view pass.new ≡ view pass.old) }
    ensures rule { IfSome result (λ _. Held 0 (M.fact (view pass.old))) }
    ensures evidence { IfSome result (λ empty. QueriedBy empty.requested.value pass.old) }
{
    if queue.is_empty_as::<M>(pass) {
        return Some(WasEmpty {
            requested: Snapshot::of(pass),
        });
    }
    None
}

/// Evidence that an inbox was full at some time during a call. Only this file can make it. Contracts see it as a
/// `FoundFull`: which inbox, and what the calling end had offered by then.
#[derive(Drop)]
pub struct InboxFull {
    full: WasFull<InboxEntry, InboxView>,
}

impl Model for InboxFull {
    ghost use Rattle.srt_mailbox.specs.Evidence.{FoundFull, found_full};

    ghost Value = { FoundFull };

    ghost view = { λ s. found_full s.full.requested.value.table_id s.full.requested.value.me.0.client.polled s.full.requested.value.me.0.client.ticked };
}

impl InboxFull {
    ghost use Rattle.srt_mailbox.specs.Evidence.{found_full};

    /// Restricts the evidence to an inbox.
    #[inline(always)]
    pub(crate) fn new(full: WasFull<InboxEntry, InboxView>) -> InboxFull
        ensures { result ≡ found_full full.requested.value.table_id full.requested.value.me.0.client.polled full.requested.value.me.0.client.ticked }
    {
        InboxFull { full }
    }
}

impl fmt::Debug for InboxFull {
    fn fmt<W: fmt::Write>(&self, f: &mut fmt::Formatter<W>) -> fmt::Result {
        f.write_str("InboxFull")
    }
}

/// Evidence that an outbox was empty at some time during a call. Only this file can make it. Contracts see it as a
/// `FoundEmpty`: which outbox, and the replies that had been drained from it by then.
#[derive(Drop)]
pub struct OutboxEmpty {
    empty: WasEmpty<Parcel, OutboxView>,
}

impl Model for OutboxEmpty {
    ghost use Rattle.srt_mailbox.specs.Evidence.{FoundEmpty, found_empty};
    ghost use Rattle.srt_mailbox.specs.Outbox.{replies_in};

    ghost Value = { FoundEmpty };

    ghost view = { λ s. found_empty s.empty.requested.value.table_id (replies_in s.empty.requested.value.me.0.client.drained) };
}

impl OutboxEmpty {
    ghost use Rattle.srt_mailbox.specs.Evidence.{found_empty};
    ghost use Rattle.srt_mailbox.specs.Outbox.{replies_in};

    /// Restricts the evidence to an outbox.
    #[inline(always)]
    pub(crate) fn new(empty: WasEmpty<Parcel, OutboxView>) -> OutboxEmpty
        ensures { result ≡ found_empty empty.requested.value.table_id (replies_in empty.requested.value.me.0.client.drained) }
    {
        OutboxEmpty { empty }
    }
}

impl fmt::Debug for OutboxEmpty {
    fn fmt<W: fmt::Write>(&self, f: &mut fmt::Formatter<W>) -> fmt::Result {
        f.write_str("OutboxEmpty")
    }
}

/// Counters of how often a route found its inbox empty and its outbox full. Only evidence increments them. Contracts
/// see them as a `Refused`.
#[derive(Drop)]
pub struct QueueRefusals {
    // both saturate at 2^64 - 1
    empty: u64,
    full: u64,
}

impl Model for QueueRefusals {
    ghost use Rattle.srt_mailbox.specs.Evidence.{Refused, refused};

    ghost Value = { Refused };

    ghost view = { λ s. refused s.empty s.full };
}

impl QueueRefusals {
    ghost use Rattle.srt_mailbox.specs.Evidence.{EmptyOnceMore, FullOnceMore, refused};

    /// Returns counters of 0.
    pub fn new() -> QueueRefusals
        ensures { result ≡ refused 0 0 }
    {
        QueueRefusals { empty: 0, full: 0 }
    }

    /// Counts an empty inbox.
    #[inline(always)]
    pub fn note_empty(&mut self, _empty: WasEmpty<InboxEntry, InboxView>)
        ensures { EmptyOnceMore self.old self.new }
    {
        self.empty = self.empty.saturating_add(1);
    }

    /// Counts a full outbox.
    #[inline(always)]
    pub fn note_full(&mut self, _full: WasFull<Parcel, OutboxView>)
        ensures { FullOnceMore self.old self.new }
    {
        self.full = self.full.saturating_add(1);
    }
}
