//! The keys of a slot's session (draft-sharabayko-srt-01, section 3.2.2; what it leaves open is our choice).

ghost use Rattle.std.specs.Prelude.{◌≡◌, ◌<◌, ◌^◌, ℕ, length, option_map, slice_index_or, IfOk, IfSome, IfNone};
ghost use Rattle.srt_types.specs.declared.shared.Role.TheVariants.{Publish, Request};
ghost use Rattle.srt_session_keys.specs.Source.{pool_of, Pool};
ghost use Rattle.srt_session_keys.specs.Wrapping.{kek_of, salt_of};
ghost use Rattle.srt_route.specs.RouteKeys.{Clear, keys_opened, own_keys, pool_opened};
ghost use Rattle.srt_packet.specs.View.{packet_of};
ghost use Rattle.srt_route.specs.Decryption.{in_clear};
ghost use Rattle.srt_route.specs.KeyRefresh.{answer_by, confirmed_by, refreshed};
ghost use Rattle.srt_route.specs.SlotKeys.{IsErased, brought_of, place_keys_of, role_stored, slot_keys_of};
ghost use Rattle.srt_route.specs.GivingUp.{is_unconfirmed};
ghost use Rattle.srt_route.specs.declared.slot_keys.KeyOpening.{KeyOpening as TheOpening};
ghost use Rattle.srt_route.specs.declared.slot_keys.KeyPlace.{KeyPlace as ThePlace};

use crate::key_request_reading::text_of;
use crate::key_text::{BroughtRef, KeyText};
use srt_packet::PacketRef;
use srt_session_keys::{KeyAnswer, KeyPool, PublisherKeys, SubscriberKeys, WrappingKey};
use srt_types::protocol_limits::MAX_PAYLOAD;
use srt_types::{Peer, Role};
use std::alloc::{AllocError, Global};

/// A session of a secured role that would open.
#[derive(Clone, Copy)]
pub(crate) struct KeyOpening {
    /// The route's clock, in microseconds: below 2^62.
    pub clock: u64,
    /// The caller's address.
    pub peer: Peer,
    /// The cookie of its conclusion.
    pub cookie: u32,
    /// The role that it requests.
    pub role: Role,
    /// The session's own socket ID.
    pub id: u32,
    /// The session's slot, from 0.
    pub slot: usize,
}

/// Whether a session opens with the keys that its caller brings.
#[derive(Clone, Copy)]
pub(crate) enum KeyVerdict {
    /// It doesn't: too many keys were derived lately.
    TooMany,
    /// It doesn't: the keys can't be unwrapped.
    WrongSecret,
    /// It does.
    Opened,
}

/// The keys of a slot's session, with the contents of its conclusion's KMREQ block.
#[derive(Drop)]
pub(crate) enum SlotKeys {
    /// None.
    Clear,
    /// Those that a publisher brought.
    Publisher {
        /// The contents of the block.
        request: KeyText,
        /// The keys.
        keys: PublisherKeys,
    },
    /// Those that the gateway makes for a subscriber.
    Subscriber {
        /// The contents of the block.
        request: KeyText,
        /// The keys.
        keys: SubscriberKeys,
    },
}

impl SlotKeys {
    /// Returns a packet for the session as that processes it: a publisher's in clear, decrypted at the front of `place`.
    pub fn decrypt<'a>(
        &mut self,
        packet: PacketRef<'a>,
        place: &'a mut [u8; MAX_PAYLOAD],
    ) -> PacketRef<'a>
        ensures packet { packet_of result ≡ in_clear (slot_keys_of self.old) (packet_of packet.entry) }
        ensures keys { slot_keys_of self.new ≡ slot_keys_of self.old }
    {
        match self {
            SlotKeys::Clear => packet,
            SlotKeys::Publisher { keys, .. } => keys.decrypt_packet(packet, place),
            SlotKeys::Subscriber { .. } => packet,
        }
    }

    /// Processes the contents of a KMREQ that arrives during the session: a publisher's takes its keys. Returns its answer;
    /// None of another session.
    pub fn refresh(&mut self, contents: &[u8]) -> Option<KeyAnswer>
        ensures answer { result ≡ answer_by contents.now (slot_keys_of self.old) }
        ensures keys { slot_keys_of self.new ≡ refreshed contents.now (slot_keys_of self.old) }
    {
        match self {
            SlotKeys::Clear => None,
            SlotKeys::Publisher { keys, .. } => Some(keys.refresh(contents)),
            SlotKeys::Subscriber { .. } => None,
        }
    }

    /// Processes the contents of a KMRSP that arrives during the session: a subscriber's announced key is confirmed if they
    /// are its message. Otherwise nothing changes.
    pub fn confirm(&mut self, contents: &[u8])
        ensures { slot_keys_of self.new ≡ confirmed_by contents.now (slot_keys_of self.old) }
    {
        match self {
            SlotKeys::Clear => {}
            SlotKeys::Publisher { .. } => {}
            SlotKeys::Subscriber { keys, .. } => {
                keys.confirm(contents);
            }
        }
    }

    /// Whether a subscriber's session is to end at this time, in microseconds since its opening: its next key was announced
    /// five seconds ago and isn't confirmed.
    pub fn is_unconfirmed(&self, time: u64) -> bool
        ensures { result ≡ is_unconfirmed (own_keys (slot_keys_of self.now)) time }
    {
        match self {
            SlotKeys::Clear => false,
            SlotKeys::Publisher { .. } => false,
            SlotKeys::Subscriber { keys, .. } => keys.is_given_up(time),
        }
    }

    /// Overwrites the keys with zeros, where they are stored.
    fn forget(&mut self)
        ensures erased { IsErased self.new }
        ensures stored { role_stored self.new ≡ role_stored self.old }
    {
        match self {
            SlotKeys::Clear => {}
            SlotKeys::Publisher { keys, .. } => keys.forget(),
            SlotKeys::Subscriber { keys, .. } => keys.forget(),
        }
    }
}

/// What a slot stores of keys. Where its session has ended, they were overwritten with zeros, and stay so until the next
/// session with keys opens in the slot.
#[derive(Drop)]
pub(crate) struct KeyPlace {
    /// Whether the keys are those of an open session.
    pub is_held: bool,
    /// The keys.
    pub keys: SlotKeys,
}

impl KeyPlace {
    /// Returns a packet for the session as that processes it: a publisher's in clear, decrypted at the front of `place`.
    pub fn decrypt<'a>(
        &mut self,
        packet: PacketRef<'a>,
        place: &'a mut [u8; MAX_PAYLOAD],
    ) -> PacketRef<'a>
        ensures packet { packet_of result ≡ in_clear (place_keys_of self.old) (packet_of packet.entry) }
        ensures keys { place_keys_of self.new ≡ place_keys_of self.old }
    {
        if !self.is_held {
            return packet;
        }
        self.keys.decrypt(packet, place)
    }

    /// Processes the contents of a KMREQ that arrives during the session: a publisher's takes its keys. Returns its answer;
    /// None of another session.
    pub fn refresh(&mut self, contents: &[u8]) -> Option<KeyAnswer>
        ensures answer { result ≡ answer_by contents.now (place_keys_of self.old) }
        ensures keys { place_keys_of self.new ≡ refreshed contents.now (place_keys_of self.old) }
    {
        if !self.is_held {
            return None;
        }
        self.keys.refresh(contents)
    }

    /// Processes the contents of a KMRSP that arrives during the session: a subscriber's announced key is confirmed if they
    /// are its message. Otherwise nothing changes.
    pub fn confirm(&mut self, contents: &[u8])
        ensures { place_keys_of self.new ≡ confirmed_by contents.now (place_keys_of self.old) }
    {
        if !self.is_held {
            return;
        }
        self.keys.confirm(contents);
    }

    /// Whether a subscriber's session is to end at this time, in microseconds since its opening: its next key was announced
    /// five seconds ago and isn't confirmed.
    pub fn is_unconfirmed(&self, time: u64) -> bool
        ensures { result ≡ is_unconfirmed (own_keys (place_keys_of self.now)) time }
    {
        if !self.is_held {
            return false;
        }
        self.keys.is_unconfirmed(time)
    }

    /// Removes the keys: overwrites them with zeros where they are stored.
    pub fn clear(&mut self)
        ensures keys { place_keys_of self.new ≡ Clear }
        ensures erased { IsErased self.new.keys }
        ensures stored { role_stored self.new.keys ≡ role_stored self.old.keys }
    {
        self.keys.forget();
        self.is_held = false;
    }
}

/// The keys of a publisher's session that opens. None if those that it brings can't be unwrapped.
fn publisher_keys(kek: WrappingKey, brought: &BroughtRef<'_>) -> Option<SlotKeys>
    requires { salt_of kek ≡ brought.now.message.salt }
    ensures { (o : TheOpening) (pool : Pool) → option_map slot_keys_of result ≡ keys_opened Publish (kek_of kek) (brought_of brought.now) o pool }
{
    match PublisherKeys::open(kek, &brought.message) {
        Some(keys) => Some(SlotKeys::Publisher {
            request: text_of(brought),
            keys,
        }),
        None => None,
    }
}

/// The keys of a subscriber's session that opens, which is counted in the pool. None if those that it brings can't be
/// unwrapped.
fn subscriber_keys(
    kek: WrappingKey,
    opening: KeyOpening,
    brought: &BroughtRef<'_>,
    pool: &mut KeyPool,
) -> Option<SlotKeys>
    requires salt { salt_of kek ≡ brought.now.message.salt }
    requires few { (pool_of pool.old).count < 2 ^ 62 }
    ensures keys { option_map slot_keys_of result ≡ keys_opened Request (kek_of kek) (brought_of brought.now) opening (pool_of pool.old) }
    ensures pool { IfSome result (λ keys. pool_of pool.new ≡ pool_opened Request opening (pool_of pool.old)) }
    ensures none { IfNone result (pool_of pool.new ≡ pool_of pool.old) }
{
    if !kek.unwraps(&brought.message) {
        return None;
    }
    let keys = SubscriberKeys::open(kek, opening.id, pool, opening.cookie, opening.peer);
    Some(SlotKeys::Subscriber {
        request: text_of(brought),
        keys,
    })
}

/// The keys of a session that opens with this key encrypting key; a subscriber's is counted in the pool. None if those
/// that it brings can't be unwrapped.
pub(crate) fn session_keys(
    kek: WrappingKey,
    opening: KeyOpening,
    brought: &BroughtRef<'_>,
    pool: &mut KeyPool,
) -> Option<SlotKeys>
    requires salt { salt_of kek ≡ brought.now.message.salt }
    requires few { (pool_of pool.old).count < 2 ^ 62 }
    ensures keys { option_map slot_keys_of result ≡ keys_opened opening.role (kek_of kek) (brought_of brought.now) opening (pool_of pool.old) }
    ensures pool { IfSome result (λ keys. pool_of pool.new ≡ pool_opened opening.role opening (pool_of pool.old)) }
    ensures none { IfNone result (pool_of pool.new ≡ pool_of pool.old) }
{
    match opening.role {
        Role::Publish => publisher_keys(kek, brought),
        Role::Request => subscriber_keys(kek, opening, brought, pool),
    }
}

/// Allocates this number of slots without keys.
pub(crate) fn clear_slots(alloc: Global, count: usize) -> Result<Vec<KeyPlace>, AllocError>
    ensures count { IfOk result (λ slots. length slots.items ≡ count) }
    ensures clear { IfOk result (λ slots. (slot : ℕ) (d : ThePlace) → slot < count → place_keys_of (slice_index_or slots.items slot d) ≡ Clear) }
{
    let mut slots = Vec::with_capacity(alloc, count)?;
    while slots.len() < count {
        slots.push(KeyPlace {
            is_held: false,
            keys: SlotKeys::Clear,
        })?;
    }
    Ok(slots)
}
