//! The rule of the inbox: which end may perform which operations, and which messages each end knows of. A *pass* is
//! the right to use the queue; each of the three ends has one. Views, rules, splits, outcomes and lessons exist only
//! for proofs.

ghost use Rattle.std.specs.Prelude.{◌≡◌, ◌<◌, ◌^◌};
ghost use Rattle.srt_types.specs.Items.{input_of, moment_of};
ghost use Rattle.srt_types.specs.declared.shared.Item.TheVariants.{Datagram};
ghost use Rattle.srt_mailbox.specs.inside.Entries.{offered_item};

use crossbeam_queue::protocol::{Join, Lesson, Outcome, Protocol, Split};
use crossbeam_queue::{Pass, RuledArrayQueue};
use srt_types::{Item, Peer};
use std::alloc::Global;
use std::collections::LinkedList;
use std::marker::Model;

/// The kind of an entry's message.
#[derive(Clone, Copy)]
pub enum EntryKind {
    /// A datagram.
    Datagram,
    /// A tick of the clock.
    Tick,
    /// The closing of the route.
    Close,
}

/// A message in the inbox, with the end that offered it. Contracts see it as an `OfferedItem`. The fields of all kinds
/// are adjacent, not in the variants of an enum: its tag and padding would make each copy slow.
#[derive(Drop)]
pub struct InboxEntry {
    // a datagram's header and sender; without meaning for another kind
    head: [u8; 16],
    peer: Peer,
    // true if the poller offered it, false if the clock did
    polled: bool,
    kind: EntryKind,
    // fills the eight bytes that end with this field
    _apart: [u8; 4],
    // microseconds, below 2^62
    moment: u64,
    // a datagram's bytes after the header; empty for another kind
    body: Vec<u8>,
}

impl Model for InboxEntry {
    ghost use Rattle.std.specs.Prelude.{◌<◌, ◌^◌};
    ghost use Rattle.srt_types.specs.declared.shared.Item.TheVariants.{Datagram, Tick, Close};
    ghost use Rattle.srt_mailbox.specs.inside.Entries.{OfferedItem, offered_item, by_kind};

    ghost Value = { OfferedItem };

    ghost view = { λ s. offered_item s.polled (by_kind s.kind (Datagram s.peer s.moment s.head s.body) (Tick s.moment) (Close s.moment)) };

    ghost invariant = { λ s. s.moment < 2 ^ 62 };
}

const NOWHERE: Peer = Peer {
    ip: [0; 16],
    port: 0,
};

impl InboxEntry {
    /// Makes an entry of a message. Its `moment` is in microseconds, below 2^62. Doesn't allocate; `alloc` is that of
    /// the empty body of an entry that isn't a datagram.
    pub fn new(alloc: Global, polled: bool, item: Item) -> InboxEntry
        requires timely { moment_of (input_of item) < 2 ^ 62 }
        ensures { result ≡ offered_item polled item }
    {
        match item {
            Item::Datagram {
                peer,
                moment,
                head,
                body,
            } => InboxEntry::datagram(polled, peer, moment, head, body),
            Item::Tick { moment } => InboxEntry {
                head: [0; 16],
                peer: NOWHERE,
                polled,
                kind: EntryKind::Tick,
                _apart: [0; 4],
                moment,
                body: Vec::new(alloc),
            },
            Item::Close { moment } => InboxEntry {
                head: [0; 16],
                peer: NOWHERE,
                polled,
                kind: EntryKind::Close,
                _apart: [0; 4],
                moment,
                body: Vec::new(alloc),
            },
        }
    }

    /// Makes an entry of a datagram. Its `moment` is in microseconds, below 2^62. Makes no `Item`, whose copies would
    /// be slow.
    #[inline(always)]
    pub fn datagram(
        polled: bool,
        peer: Peer,
        moment: u64,
        head: [u8; 16],
        body: Vec<u8>,
    ) -> InboxEntry
        requires timely { moment < 2 ^ 62 }
        ensures { result ≡ offered_item polled (Datagram peer moment head body) }
    {
        InboxEntry {
            head,
            peer,
            polled,
            kind: EntryKind::Datagram,
            _apart: [0; 4],
            moment,
            body,
        }
    }

    /// Returns the message. Its `moment` is below 2^62.
    #[inline(always)]
    pub fn into_item(self) -> Item
        ensures item { result ≡ self.item }
        ensures timely { moment_of (input_of result) < 2 ^ 62 }
    {
        let InboxEntry {
            head,
            peer,
            polled: _,
            kind,
            _apart: _,
            moment,
            body,
        } = self;
        match kind {
            EntryKind::Datagram => Item::Datagram {
                peer,
                moment,
                head,
                body,
            },
            EntryKind::Tick => Item::Tick { moment },
            EntryKind::Close => Item::Close { moment },
        }
    }
}

/// The rights of a pass of the inbox, and the operations performed with them, oldest first. No value of it is ever
/// made.
pub struct InboxView {
    /// Whether it may offer as the poller.
    pub polls: bool,
    /// Whether it may offer as the clock.
    pub ticks: bool,
    /// Whether it may receive messages.
    pub takes: bool,
    /// The messages that it offered as the poller.
    pub polled: LinkedList<Item>,
    /// The messages that it offered as the clock.
    pub ticked: LinkedList<Item>,
    /// The messages that it received.
    pub taken: LinkedList<InboxEntry>,
}

/// The rule: the messages received, followed by those in the queue, are what the poller and the clock offered, each in
/// order.
pub struct InboxRule;

impl Protocol<InboxEntry, InboxView> for InboxRule {
    ghost use Rattle.srt_mailbox.specs.Inbox.{Kept, fresh};

    ghost holds = { Kept };

    ghost first = { fresh };
}

/// Splits off the poller's pass, and joins it again.
pub struct Polling;

impl Split<InboxView> for Polling {
    ghost use Rattle.srt_mailbox.specs.Inbox.{without_poller, poller};

    ghost left = { without_poller };

    ghost right = { poller };
}

impl Join<InboxView> for Polling {
    ghost use Rattle.srt_mailbox.specs.Inbox.{with_poller, nobody};

    ghost both = { with_poller };

    ghost spent = { nobody };
}

/// Splits off the clock's pass, and joins it again.
pub struct Ticking;

impl Split<InboxView> for Ticking {
    ghost use Rattle.srt_mailbox.specs.Inbox.{without_clock, clock};

    ghost left = { without_clock };

    ghost right = { clock };
}

impl Join<InboxView> for Ticking {
    ghost use Rattle.srt_mailbox.specs.Inbox.{with_clock, nobody};

    ghost both = { with_clock };

    ghost spent = { nobody };
}

/// Operation: the poller offers a message.
pub struct Polls;

impl Outcome<InboxEntry, InboxView> for Polls {
    ghost use Rattle.srt_mailbox.specs.Inbox.{Polled};

    ghost then = { Polled };
}

impl Lesson<InboxEntry, InboxView> for Polls {
    ghost use Rattle.srt_mailbox.specs.Inbox.{StoodAsPolled};

    ghost fact = { λ v items. StoodAsPolled v.polled items };
}

/// Operation: the poller offers a datagram. It is equivalent to `Polls`. With a separate name, the push of a datagram
/// has only one caller, so that the compiler inlines it into the poller's loop.
pub struct PollsDatagram;

impl Outcome<InboxEntry, InboxView> for PollsDatagram {
    ghost use Rattle.srt_mailbox.specs.Inbox.{Polled};

    ghost then = { Polled };
}

impl Lesson<InboxEntry, InboxView> for PollsDatagram {
    ghost use Rattle.srt_mailbox.specs.Inbox.{StoodAsPolled};

    ghost fact = { λ v items. StoodAsPolled v.polled items };
}

/// Operation: the clock offers a tick.
pub struct Ticks;

impl Outcome<InboxEntry, InboxView> for Ticks {
    ghost use Rattle.srt_mailbox.specs.Inbox.{Ticked};

    ghost then = { Ticked };
}

impl Lesson<InboxEntry, InboxView> for Ticks {
    ghost use Rattle.srt_mailbox.specs.Inbox.{StoodAsTicked};

    ghost fact = { λ v items. StoodAsTicked v.ticked items };
}

/// Operation: the route receives a message.
pub struct Takes;

impl Outcome<InboxEntry, InboxView> for Takes {
    ghost use Rattle.srt_mailbox.specs.Inbox.{Took};

    ghost then = { Took };
}

impl Lesson<InboxEntry, InboxView> for Takes {
    ghost use Rattle.srt_mailbox.specs.Inbox.{StoodAsTaken};

    ghost fact = { λ v items. StoodAsTaken v.taken items };
}

/// Operation: the pass that has all three rights reads the number of remaining messages.
pub struct ItemsLeft;

impl Lesson<InboxEntry, InboxView> for ItemsLeft {
    ghost use Rattle.srt_mailbox.specs.Inbox.{KnowsAll};

    ghost fact = { KnowsAll };
}

/// The queue of an inbox: bounded, first in, first out.
pub type Inbox = RuledArrayQueue<InboxEntry, InboxView, InboxRule>;

/// A pass of an inbox.
pub type InboxPass = Pass<InboxEntry, InboxView>;
