//! Step 3 of an event on a route with a secured role, a KMRSP during a subscriber's session: it confirms the key that was
//! announced to the subscriber, if its contents are that key's message (section 3.2.2; our choice). It isn't answered, and the
//! session processes it as any packet.

ghost use Rattle.std.specs.Prelude.{◌≡◌, ◌++◌, Some, length, option_map};
ghost use Rattle.srt_types.specs.Items.{input_of};
ghost use Rattle.srt_route.specs.KeyRefresh.{confirmation_in};
ghost use Rattle.srt_route.specs.inside.Secured.{Confirms, ConfirmsFor, confirmation_of};

use crate::route_keys::RouteKeys;
use crate::socket_ids::slot_in;
use crate::table::Table;
use srt_packet::{KeyPacketKind, KeyPacketRef, decode_key_parts};
use srt_types::{Item, Peer};

/// Returns the KMRSP that a datagram is, if it is one.
fn response_in<'a>(head: &[u8; 16], body: &'a [u8]) -> Option<KeyPacketRef<'a>>
    ensures { option_map confirmation_of result ≡ confirmation_in (head.now ++ body.now) }
{
    let packet = decode_key_parts(head, body)?;
    match packet.kind {
        KeyPacketKind::Request => None,
        KeyPacketKind::Response => Some(packet),
    }
}

/// Processes a KMRSP from this sender.
fn take_response(table: &Table, keys: &mut RouteKeys, peer: Peer, response: &KeyPacketRef<'_>)
    requires places { length keys.old.slots.items ≡ length table.now.seats.items }
    ensures confirmed { ConfirmsFor peer (Some (confirmation_of response.now)) table.now keys.old keys.new }
    ensures places { length keys.new.slots.items ≡ length keys.old.slots.items }
{
    let at = slot_in(response.dest);
    if at >= table.seats.len() {
        return;
    }
    if !table.seats[at].is_for(peer, response.dest) {
        return;
    }
    keys.confirm(at, response.info);
}

/// Processes a datagram from this sender: one that is no KMRSP changes nothing.
fn take_datagram(table: &Table, keys: &mut RouteKeys, peer: Peer, head: &[u8; 16], body: &[u8])
    requires places { length keys.old.slots.items ≡ length table.now.seats.items }
    ensures confirmed { ConfirmsFor peer (confirmation_in (head.now ++ body.now)) table.now keys.old keys.new }
    ensures places { length keys.new.slots.items ≡ length keys.old.slots.items }
{
    if let Some(response) = response_in(head, body) {
        take_response(table, keys, peer, &response);
    }
}

/// Confirms the announced key of a session, if the item is a KMRSP with that key's message.
pub(crate) fn confirm_keys(table: &Table, keys: &mut RouteKeys, item: &Item)
    requires places { length keys.old.slots.items ≡ length table.now.seats.items }
    ensures confirmed { Confirms (input_of item.now) table.now keys.old keys.new }
    ensures places { length keys.new.slots.items ≡ length keys.old.slots.items }
{
    match item {
        Item::Datagram {
            peer,
            moment: _,
            head,
            body,
        } => take_datagram(table, keys, *peer, head, body),
        Item::Tick { moment: _ } => {}
        Item::Close { moment: _ } => {}
    }
}
