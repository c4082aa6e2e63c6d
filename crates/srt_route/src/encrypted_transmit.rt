//! Step 6 of an event for a subscriber's session with keys: the KMREQ of its next key, if that is due, and its packets, each
//! payload under its key and none before the subscriber has confirmed that (sections 3.1 and 3.2.2; what the draft leaves
//! open is our choice).

ghost use Rattle.std.specs.Prelude.{◌≡◌, ◌<◌, ◌^◌, map};
ghost use Rattle.srt_packet.specs.Encoded.{bytes_of};
ghost use Rattle.srt_session_keys.specs.Subscriber.{has_key, subscriber_of};
ghost use Rattle.srt_route.specs.Buffers.{datagrams_to};
ghost use Rattle.srt_route.specs.EncryptedOutput.{announcement_if, payload_key, payloads_confirmed};
ghost use Rattle.srt_route.specs.inside.Encrypting.{AnnouncesWith, EmitsAllWith, IsMade, QueuesAll, QueuesEmitted, ReportsWith, encrypted_if};
ghost use Rattle.srt_route.specs.inside.Encrypting.{pending_after};
ghost use Rattle.srt_route.specs.inside.Reports.{Queues};

use crate::replies::Reply;
use crate::reply_queue::{ReplyQueue, ScratchBoxes};
use srt_packet::{KeyPacketKind, KeyPacketRef};
use srt_session_keys::SubscriberKeys;
use srt_sub::{Emitted, Subscriber};
use srt_types::Peer;

/// One more than the most packets that a subscriber is sent at the end of an event, its KMREQ aside.
const MAX_CALLS: u32 = 66;

/// The number of payloads from which on a session sends nothing. No session queues that many.
const MAX_QUEUED: u64 = 1 << 61;

/// The number of payloads of one key.
const PAYLOADS_OF_A_KEY: u64 = 1 << 24;

/// The peer of a subscriber's session with keys, at the end of an event.
#[derive(Clone, Copy)]
pub(crate) struct KeyReceiver {
    /// Its address.
    pub peer: Peer,
    /// Its socket ID.
    pub caller: u32,
    /// The session's time, in microseconds since its opening.
    pub time: u64,
    /// The route's clock, in microseconds.
    pub clock: u64,
    /// Whether it was heard less than a second ago.
    pub recent: bool,
}

/// Queues the KMREQ of the next key (section 3.2.2) if it is `pending`. It is written in `hand`.
fn put_announcement(
    keys: &SubscriberKeys,
    to: KeyReceiver,
    pending: bool,
    hand: &mut Box<Reply>,
    waiting: &mut ReplyQueue,
)
    ensures { IsMade pending (subscriber_of keys.now)
        → QueuesAll to.peer waiting.old waiting.new (announcement_if pending (subscriber_of keys.now) to.caller to.time) }
{
    if !pending {
        return;
    }
    hand.packet.write_key_packet(&KeyPacketRef {
        stamp: (to.time % (1 << 32)) as u32,
        dest: to.caller,
        kind: KeyPacketKind::Request,
        info: keys.message(),
    });
    waiting.put_to(to.peer, hand);
}

/// Queues the data packet in this box under the key of its payload, of which this is the index. If that key isn't stored, the
/// packet isn't sent.
fn put_encrypted(
    keys: &SubscriberKeys,
    payload: u64,
    peer: Peer,
    hand: &mut Box<Reply>,
    waiting: &mut ReplyQueue,
)
    ensures { Queues waiting.old waiting.new (datagrams_to peer (encrypted_if (has_key (subscriber_of keys.now) payload)
        (payload_key (subscriber_of keys.now) payload) (bytes_of hand.old.value.packet))) }
{
    if !keys.has_key(payload) {
        return;
    }
    keys.encrypt_packet(payload, &mut hand.packet);
    waiting.put_to(peer, hand);
}

/// Queues the packet of an event's end in `scratch.reply`, which is of this kind, and before it the KMREQ of the next key if that
/// is `pending` and the packet isn't a drop request. Returns whether the KMREQ is still pending.
fn put_emitted(
    kind: Emitted,
    keys: &SubscriberKeys,
    to: KeyReceiver,
    pending: bool,
    scratch: &mut ScratchBoxes,
    waiting: &mut ReplyQueue,
) -> bool
    ensures pending { result ≡ pending_after kind pending }
    ensures said { QueuesEmitted to kind (bytes_of scratch.old.reply.value.packet) pending (subscriber_of keys.now) waiting.old waiting.new }
{
    match kind {
        Emitted::DropRequest => {
            waiting.put_to(to.peer, &mut scratch.reply);
            pending
        }
        Emitted::Data(payload) => {
            put_announcement(keys, to, pending, &mut scratch.ack, waiting);
            put_encrypted(keys, payload, to.peer, &mut scratch.reply, waiting);
            false
        }
        Emitted::KeepAlive => {
            put_announcement(keys, to, pending, &mut scratch.ack, waiting);
            waiting.put_to(to.peer, &mut scratch.reply);
            false
        }
    }
}

/// Queues a subscriber's drop request, the KMREQ of its next key if that is `pending`, its data packets under their keys and its
/// KEEPALIVE, in this order.
fn emit_encrypted(
    subscriber: &mut Subscriber,
    keys: &SubscriberKeys,
    to: KeyReceiver,
    pending: bool,
    scratch: &mut ScratchBoxes,
    waiting: &mut ReplyQueue,
)
    requires { to.clock < 2 ^ 62 }
    ensures { EmitsAllWith to pending (subscriber_of keys.now) subscriber.old subscriber.new waiting.old waiting.new }
{
    let mut left = pending;
    for turn in 0..MAX_CALLS {
        match subscriber.emit_indexed(to.clock, to.recent, &mut scratch.reply.packet) {
            None => {
                put_announcement(keys, to, left, &mut scratch.ack, waiting);
                return;
            }
            Some(kind) => {
                left = put_emitted(kind, keys, to, left, scratch, waiting);
            }
        }
    }
}

/// Returns the number of payloads that may be sent for the first time.
fn confirmed_payloads(keys: &SubscriberKeys) -> u64
    ensures { result ≡ payloads_confirmed (subscriber_of keys.now) }
{
    keys.confirmed().saturating_mul(PAYLOADS_OF_A_KEY)
}

/// Queues what a subscriber's session with keys sends at the end of an event: the KMREQ of its next key, if that is due, and its
/// packets, each payload under its key. Payloads whose keys aren't confirmed are held.
pub(crate) fn transmit_encrypted(
    subscriber: &mut Subscriber,
    keys: &mut SubscriberKeys,
    to: KeyReceiver,
    scratch: &mut ScratchBoxes,
    waiting: &mut ReplyQueue,
)
    requires { to.clock < 2 ^ 62 }
    ensures { ReportsWith to (subscriber_of keys.old) (subscriber_of keys.new) subscriber.old subscriber.new waiting.old waiting.new }
{
    let queued = subscriber.queued_payloads();
    if queued >= MAX_QUEUED {
        return;
    }
    let announced = keys.announce(queued, to.time);
    let window = subscriber.hold(confirmed_payloads(keys));
    emit_encrypted(subscriber, keys, to, announced, scratch, waiting);
    subscriber.release(window);
}

/// Queues the KMREQ of the next key of a subscriber's session that ends, if it is due.
pub(crate) fn announce_at_end(
    subscriber: &Subscriber,
    keys: &mut SubscriberKeys,
    to: KeyReceiver,
    hand: &mut Box<Reply>,
    waiting: &mut ReplyQueue,
)
    ensures { AnnouncesWith to (subscriber_of keys.old) (subscriber_of keys.new) subscriber.now waiting.old waiting.new }
{
    let queued = subscriber.queued_payloads();
    if queued >= MAX_QUEUED {
        return;
    }
    let announced = keys.announce(queued, to.time);
    put_announcement(keys, to, announced, hand, waiting);
}
