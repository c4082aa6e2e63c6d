//! What a route has for its secured roles (draft-sharabayko-srt-01, section 3.2.2; what it leaves open is our choice).

ghost use Rattle.std.specs.Prelude.{◌≤◌, ◌*◌};
ghost use Rattle.srt_session_keys.specs.Limiter.{moments_of};
ghost use Rattle.srt_session_keys.specs.Source.{pool_of};

use crate::key_text::BroughtRef;
use crate::opening::has_secured_role;
use crate::slot_keys::{KeyOpening, KeyPlace, KeyVerdict, clear_slots, session_keys};
use srt_packet::PacketRef;
use srt_session_keys::{DerivationLimiter, DerivationPermit, KeyAnswer, KeyPool, WrappingKey};
use srt_types::protocol_limits::MAX_PAYLOAD;
use srt_types::{Entry, Role};
use std::alloc::{AllocError, Global};

/// What a route has for its secured roles. All memory is allocated when the route opens; a route without such a role
/// takes none.
#[derive(Drop)]
pub(crate) struct RouteKeys {
    /// The passphrase of publishers.
    pub publish: Option<String>,
    /// The passphrase of subscribers.
    pub request: Option<String>,
    /// The limit on key derivations, which take milliseconds each.
    pub limiter: DerivationLimiter,
    /// What distinguishes the subscribers' sessions.
    pub pool: KeyPool,
    /// The keys of each slot's session; no slot if no role is secured.
    pub slots: Vec<KeyPlace>,
    pub ghost few: { 50_000 * (pool_of pool).count ≤ (moments_of limiter).route },
}

impl RouteKeys {
    ghost use Rattle.std.specs.Prelude.{◌≡◌, ◌<◌, ◌^◌, ℕ, length, option_map, string_bytes, true, Some, List, IfOk, IfSome};
    ghost use Rattle.srt_session_keys.specs.Wrapping.{kek_of, salt_of};
    ghost use Rattle.srt_types.specs.declared.shared.Role.TheVariants.{Publish, Request};
    ghost use Rattle.srt_packet.specs.View.{packet_of};
    ghost use Rattle.srt_route.specs.Decryption.{in_clear};
    ghost use Rattle.srt_route.specs.KeyRefresh.{answer_by, confirmed_by, refreshed};
    ghost use Rattle.srt_route.specs.SlotKeys.{brought_of};
    ghost use Rattle.srt_types.specs.Terms.{Terms, terms_of};
    ghost use Rattle.srt_route.specs.RouteKeys.{RouteKeys as Keys, Clear, first_keys, has_secured_role, kek_for, opening as the_opening};
    ghost use Rattle.srt_route.specs.RouteKeys.{passphrase_of, secures, with_slot};
    ghost use Rattle.srt_route.specs.StoredKeys.{AreKeys, IsOpened};

    /// Returns a copy of a passphrase. Allocates if there is one.
    fn copied(alloc: Global, text: &Option<String>) -> Result<Option<String>, AllocError>
        ensures { IfOk result (λ copy. option_map string_bytes copy ≡ option_map string_bytes text.now) }
    {
        match text.as_ref() {
            Some(text) => Ok(Some(String::from_str(alloc, text.as_str())?)),
            None => Ok(None),
        }
    }

    /// Returns the keys of a route that opens: none yet.
    pub fn open(alloc: Global, entry: &Entry) -> Result<RouteKeys, AllocError>
        ensures { IfOk result (λ keys. AreKeys (terms_of entry.now) keys first_keys) }
    {
        let places = if has_secured_role(entry) {
            entry.sessions as usize
        } else {
            0
        };
        Ok(RouteKeys {
            publish: RouteKeys::copied(alloc, &entry.access.publish.passphrase)?,
            request: RouteKeys::copied(alloc, &entry.access.request.passphrase)?,
            limiter: DerivationLimiter::new(),
            pool: KeyPool::new(),
            slots: clear_slots(alloc, places)?,
        })
    }

    /// Whether sessions of this role are encrypted.
    pub fn secures(&self, role: Role) -> bool
        ensures { (e : Terms) (keys : Keys) → AreKeys e self.now keys → result ≡ secures e role }
    {
        match role {
            Role::Publish => self.publish.is_some(),
            Role::Request => self.request.is_some(),
        }
    }

    /// Whether sessions of any role are encrypted.
    pub fn has_secured_role(&self) -> bool
        ensures { (e : Terms) (keys : Keys) → AreKeys e self.now keys → result ≡ has_secured_role e }
    {
        if self.secures(Role::Publish) {
            return true;
        }
        self.secures(Role::Request)
    }

    /// Whether sessions of any role are encrypted. `places` is the number of the route's slots, as many as have keys here.
    pub fn are_for(&self, places: usize) -> bool
        ensures places { result ≡ true → length self.now.slots.items ≡ places }
        ensures secured { (e : Terms) (keys : Keys) → AreKeys e self.now keys → places ≡ e.sessions → result ≡ has_secured_role e }
    {
        if !self.has_secured_role() {
            return false;
        }
        self.slots.len() == places
    }

    /// Removes the keys of a slot, after they were overwritten with zeros.
    pub fn clear(&mut self, slot: usize)
        requires { slot < length self.old.slots.items }
        ensures keys { (e : Terms) (keys : Keys) → AreKeys e self.old keys → AreKeys e self.new (with_slot slot Clear keys) }
        ensures places { length self.new.slots.items ≡ length self.old.slots.items }
    {
        self.slots[slot].clear();
    }

    /// Returns a packet for the session of a slot as that processes it: a publisher's in clear, decrypted at the front of
    /// `place`.
    pub fn decrypt<'a>(
        &mut self,
        slot: usize,
        packet: PacketRef<'a>,
        place: &'a mut [u8; MAX_PAYLOAD],
    ) -> PacketRef<'a>
        requires { slot < length self.old.slots.items }
        ensures packet { (e : Terms) (keys : Keys) → AreKeys e self.old keys → has_secured_role e ≡ true → slot < e.sessions
            → packet_of result ≡ in_clear (keys.held slot) (packet_of packet.entry) }
        ensures keys { (e : Terms) (keys : Keys) → AreKeys e self.old keys → AreKeys e self.new (with_slot slot (keys.held slot) keys) }
        ensures stamp { result.stamp ≡ packet.entry.stamp }
        ensures places { length self.new.slots.items ≡ length self.old.slots.items }
    {
        self.slots[slot].decrypt(packet, place)
    }

    /// Processes the contents of a KMREQ that arrives during the session of a slot: a publisher's takes its keys. Returns its
    /// answer; None of another session.
    pub fn refresh(&mut self, slot: usize, contents: &[u8]) -> Option<KeyAnswer>
        requires { slot < length self.old.slots.items }
        ensures answer { (e : Terms) (keys : Keys) → AreKeys e self.old keys → has_secured_role e ≡ true → slot < e.sessions
            → result ≡ answer_by contents.now (keys.held slot) }
        ensures keys { (e : Terms) (keys : Keys) → AreKeys e self.old keys → has_secured_role e ≡ true → slot < e.sessions
            → AreKeys e self.new (with_slot slot (refreshed contents.now (keys.held slot)) keys) }
        ensures places { length self.new.slots.items ≡ length self.old.slots.items }
    {
        self.slots[slot].refresh(contents)
    }

    /// Processes the contents of a KMRSP that arrives during the session of a slot: a subscriber's announced key is confirmed
    /// if they are its message. Otherwise nothing changes.
    pub fn confirm(&mut self, slot: usize, contents: &[u8])
        requires { slot < length self.old.slots.items }
        ensures keys { (e : Terms) (keys : Keys) → AreKeys e self.old keys → has_secured_role e ≡ true → slot < e.sessions
            → AreKeys e self.new (with_slot slot (confirmed_by contents.now (keys.held slot)) keys) }
        ensures places { length self.new.slots.items ≡ length self.old.slots.items }
    {
        self.slots[slot].confirm(contents);
    }

    /// Derives the key encrypting key from the passphrase of a role. None if the role isn't secured.
    fn derive(
        &self,
        permit: DerivationPermit,
        role: Role,
        brought: &BroughtRef<'_>,
    ) -> Option<WrappingKey>
        ensures value { (e : Terms) (passphrase : List ℕ) → option_map string_bytes self.now.publish ≡ passphrase_of e Publish
            → option_map string_bytes self.now.request ≡ passphrase_of e Request → passphrase_of e role ≡ Some passphrase
            → option_map kek_of result ≡ Some (kek_for passphrase (brought_of brought.now).message) }
        ensures salt { IfSome result (λ kek. salt_of kek ≡ brought.now.message.salt) }
    {
        let passphrase = match role {
            Role::Publish => self.publish.as_ref()?,
            Role::Request => self.request.as_ref()?,
        };
        Some(WrappingKey::derive(permit, passphrase.as_bytes(), &brought.message))
    }

    /// Opens a session with the keys that its caller brings, if no more keys were derived lately than the limit allows
    /// and if they can be unwrapped with the passphrase of its role.
    pub fn open_session(&mut self, opening: KeyOpening, brought: &BroughtRef<'_>) -> KeyVerdict
        requires early { opening.clock < 2 ^ 62 }
        requires inside { opening.slot < length self.old.slots.items }
        ensures opened { (e : Terms) (keys : Keys) (passphrase : List ℕ) → AreKeys e self.old keys → passphrase_of e opening.role ≡ Some passphrase
            → IsOpened e self.new result (the_opening passphrase (brought_of brought.now) opening keys) }
        ensures places { length self.new.slots.items ≡ length self.old.slots.items }
    {
        let Some(permit) = self.limiter.admits(opening.clock, opening.peer.ip[15]) else {
            return KeyVerdict::TooMany;
        };
        let Some(kek) = self.derive(permit, opening.role, brought) else {
            return KeyVerdict::TooMany;
        };
        match session_keys(kek, opening, brought, &mut self.pool) {
            Some(keys) => {
                self.slots[opening.slot] = KeyPlace {
                    is_held: true,
                    keys,
                };
                KeyVerdict::Opened
            }
            None => KeyVerdict::WrongSecret,
        }
    }
}
