//! The length of a session's keys (draft-sharabayko-srt-01, section 3.2.2, KLen), which a snapshot shows.

ghost use Rattle.std.specs.Prelude.{◌≡◌, ◌<◌, ℕ, option_map};
ghost use Rattle.srt_aes.specs.Aes.{IsKeyLength};
ghost use Rattle.srt_types.specs.Access.{bytes_in};
ghost use Rattle.srt_types.specs.Terms.{Terms};
ghost use Rattle.srt_route.specs.RouteKeys.{RouteKeys as Keys};
ghost use Rattle.srt_route.specs.ShownKeys.{key_bytes, key_bytes_in};
ghost use Rattle.srt_route.specs.SlotKeys.{place_keys_of, slot_keys_of};
ghost use Rattle.srt_route.specs.StoredKeys.{AreKeys};

use crate::route_keys::RouteKeys;
use crate::slot_keys::{KeyPlace, SlotKeys};
use srt_types::KeyLength;

/// Returns the length of keys of this many bytes.
fn length_of(bytes: usize) -> KeyLength
    requires { IsKeyLength bytes }
    ensures { bytes_in result ≡ bytes }
{
    if bytes == 16 {
        return KeyLength::Aes128;
    }
    if bytes == 24 {
        return KeyLength::Aes192;
    }
    KeyLength::Aes256
}

impl SlotKeys {
    /// Returns the length of the keys; None if there are none.
    pub fn key_length(&self) -> Option<KeyLength>
        ensures { option_map bytes_in result ≡ key_bytes (slot_keys_of self.now) }
    {
        match self {
            SlotKeys::Clear => None,
            SlotKeys::Publisher { keys, .. } => Some(length_of(keys.key_length())),
            SlotKeys::Subscriber { keys, .. } => Some(length_of(keys.key_length())),
        }
    }
}

impl KeyPlace {
    /// Returns the length of the keys of the open session; None if it has none.
    pub fn key_length(&self) -> Option<KeyLength>
        ensures { option_map bytes_in result ≡ key_bytes (place_keys_of self.now) }
    {
        if !self.is_held {
            return None;
        }
        self.keys.key_length()
    }
}

impl RouteKeys {
    /// Returns the length of the keys of a slot's session; None if it isn't encrypted, or if there is no such slot.
    pub fn key_length(&self, slot: usize) -> Option<KeyLength>
        ensures { (e : Terms) (keys : Keys) → AreKeys e self.now keys → slot < e.sessions → option_map bytes_in result ≡ key_bytes_in e keys slot }
    {
        if !self.has_secured_role() {
            return None;
        }
        if slot >= self.slots.len() {
            return None;
        }
        self.slots[slot].key_length()
    }
}
