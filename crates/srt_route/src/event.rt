//! An event on an open route: its steps after the clock's.

ghost use Rattle.std.specs.Prelude.{◌≡◌, ◌<◌, ◌^◌};
ghost use Rattle.srt_types.specs.Items.{input_of};
ghost use Rattle.srt_route.specs.Totals.{SumsGrow};
ghost use Rattle.srt_route.specs.inside.Event.{Counts, Ends, KeysPass, Passes, Replies};

use crate::draining::deliver_and_settle;
use crate::giving_up::give_up;
use crate::ledger::Ledger;
use crate::reply_queue::{ReplyQueue, ScratchBoxes};
use crate::route_keys::RouteKeys;
use crate::secured::dispatch_secured;
use crate::silence::advance;
use crate::subscriber_transmit::transmit_subscribers;
use crate::table::Table;
use crate::transmit::transmit_publishers;
use srt_types::Item;

/// An item that comes to a route.
#[derive(Clone, Copy)]
pub struct Event<'a> {
    /// The route's clock, in microseconds.
    pub clock: u64,
    /// The item.
    pub item: &'a Item,
}

/// Processes an item, and queues the replies.
#[inline(always)]
pub fn process(
    table: &mut Table,
    keys: &mut RouteKeys,
    scratch: &mut ScratchBoxes,
    ledger: &mut Ledger,
    event: Event<'_>,
    waiting: &mut ReplyQueue,
)
    requires early { event.clock < 2 ^ 62 }
    ensures table { Passes event.entry.clock (input_of event.entry.item.now) table.old table.new keys.old }
    ensures keys { KeysPass event.entry.clock (input_of event.entry.item.now) table.old keys.old keys.new }
    ensures replies { Replies event.entry.clock (input_of event.entry.item.now) table.old keys.old waiting.old waiting.new }
    ensures ends { Ends event.entry.clock (input_of event.entry.item.now) table.old keys.old ledger.old ledger.new }
    ensures tally { Counts event.entry.clock (input_of event.entry.item.now) table.old keys.old ledger.old ledger.new }
    ensures sums { SumsGrow ledger.old.totals ledger.new.totals }
{
    let clock = event.clock;
    // 2: sessions that don't confirm their keys are given up and end with the idle ones, what is too late is dropped, and
    // the standby takes over if it is due.
    give_up(table, keys, clock);
    advance(table, ledger, clock, &mut scratch.reply, waiting);
    // 3: a datagram belongs to a session or is a conclusion; a Close ends every session.
    dispatch_secured(table, keys, ledger, event, &mut scratch.reply, waiting);
    // 4: the active publisher's payloads go to the subscribers; a draining session ends once nothing is left.
    deliver_and_settle(table, ledger, clock);
    // 5: the publishers' packets.
    transmit_publishers(table, clock, scratch, waiting);
    // 6: the subscribers' packets, or the end of a session whose subscriber has the whole file.
    transmit_subscribers(table, keys, ledger, clock, scratch, waiting);
}
