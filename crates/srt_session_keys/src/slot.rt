//! Room for a stream encrypting key.

ghost use Rattle.std.specs.Prelude.{◌≡◌, ◌<◌, true, length, is_some, Some, None};
ghost use Rattle.srt_aes.specs.Aes.{IsKeyLength};
ghost use Rattle.srt_aes.specs.Keys.{key_of};

use srt_aes::RoundKeys;

/// Room for a stream encrypting key (SEK).
#[derive(Drop)]
pub(crate) struct KeySlot {
    is_held: bool,
    keys: RoundKeys,
    ghost whole: { is_held ≡ true → IsKeyLength (length (key_of keys)) },
}

impl KeySlot {
    ghost use Rattle.srt_aes.specs.Keys.{IsErased};
    ghost use Rattle.srt_session_keys.specs.Publisher.{slot_key, with_key};

    /// Returns an empty slot.
    pub(crate) fn new() -> KeySlot
        ensures { slot_key result ≡ None }
    {
        KeySlot {
            is_held: false,
            keys: RoundKeys::none(),
        }
    }

    /// Puts a key in, in the place of the one that was there.
    pub(crate) fn put(&mut self, key: &[u8])
        requires { IsKeyLength (length key.now) }
        ensures { slot_key self.new ≡ Some key.now }
    {
        self.keys = RoundKeys::new(key);
        self.is_held = true;
    }

    /// Encrypts or decrypts the payload of a packet in place, and returns whether there is a key.
    pub(crate) fn apply(&self, salt: &[u8; 16], number: u32, payload: &mut [u8]) -> bool
        requires { length payload.old < 2032 }
        ensures held { result ≡ is_some (slot_key self.now) }
        ensures payload { payload.new ≡ with_key (slot_key self.now) salt.now number payload.old }
    {
        if self.is_held {
            self.keys.apply(salt, number, payload);
        }
        self.is_held
    }

    /// Overwrites the key and its schedule with zeros.
    pub(crate) fn forget(&mut self)
        ensures none { slot_key self.new ≡ None }
        ensures erased { IsErased self.new.keys }
    {
        self.is_held = false;
        self.keys.forget();
    }
}
