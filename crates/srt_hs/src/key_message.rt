//! The content of a key material message (draft-sharabayko-srt-01, section 3.2.2).

ghost use Rattle.std.specs.Prelude.{◌≡◌, length};
ghost use Rattle.srt_hs.specs.KeyMessage.{IsKeyLength, wrapped_length};

/// Why bytes are no key material message. Of several faults, the first in this order is returned (our choice).
#[derive(Clone, Copy, PartialEq, Eq)]
pub enum KeyFault {
    /// Fewer than 16 bytes.
    Short,
    /// The first three bytes aren't `12 20 29`: version 1, packet type 2, and the signature.
    Sign,
    /// The field KK is 0: no key.
    Keys,
    /// KEKI isn't 0: another key than the one that both sides have from a passphrase.
    Keki,
    /// Cipher isn't 2: AES-CTR.
    Cipher,
    /// Auth isn't 0: none.
    Auth,
    /// SE isn't 2.
    Encapsulation,
    /// The salt hasn't 16 bytes.
    SaltLength,
    /// Keys haven't 16, 24 or 32 bytes.
    KeyLength,
    /// The message hasn't the length that follows from the number of keys and from their length.
    Length,
}

/// Which keys a message brings: the field KK.
#[derive(Clone, Copy, PartialEq, Eq)]
pub enum SentKeys {
    /// 1: the even key.
    Even,
    /// 2: the odd key.
    Odd,
    /// 3: the even key, and the odd one behind it.
    Both,
}

/// A key material message with AES-CTR and a key that both sides have from a passphrase.
#[derive(Clone, Copy)]
pub struct KeyMessageRef<'a> {
    /// The keys that it brings.
    pub keys: SentKeys,
    /// The length of each key, in bytes: 16, 24 or 32.
    pub key_length: usize,
    /// The salt.
    pub salt: [u8; 16],
    /// The wrapped keys: 8 bytes more than the keys have.
    pub wrapped: &'a [u8],
    pub ghost whole: { IsKeyLength key_length },
    pub ghost exact: { length wrapped.now ≡ wrapped_length keys key_length },
}
