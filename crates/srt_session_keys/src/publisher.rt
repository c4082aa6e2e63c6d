//! The keys of a publisher's session (draft-sharabayko-srt-01).

ghost use Rattle.std.specs.Prelude.{◌≡◌, ◌<◌, ◌+◌, length, Ok, is_some, option_map};
ghost use Rattle.srt_aes.specs.Aes.{IsKeyLength};
ghost use Rattle.srt_hs.specs.KeyMessage.{message_in, wrapped_length};
ghost use Rattle.srt_hs.specs.KeyView.{message_of};
ghost use Rattle.srt_session_keys.specs.Wrapping.{kek_of, salt_of, brings, keys_in_text};
ghost use Rattle.srt_session_keys.specs.Publisher.{keys_of, keys_by, replaced};

use crate::slot::KeySlot;
use crate::wrapping_key::WrappingKey;
use srt_hs::{KeyMessageRef, SentKeys, read_key_message};
use srt_packet::{Kind, PacketRef};
use srt_types::PayloadRef;

/// The answer to a key material message that arrives during a session.
#[derive(Clone, Copy, PartialEq, Eq)]
pub enum KeyAnswer {
    /// Its keys are in force: the answer repeats the message.
    Taken,
    /// It is no message that reads, or has another salt or length of keys than the session: NOSECRET.
    NoSecret,
    /// Its keys can't be unwrapped: BADSECRET.
    BadSecret,
}

impl KeyAnswer {
    ghost use Rattle.srt_session_keys.specs.Publisher.{response_to};

    /// The contents of the KMRSP that answers a KMREQ with these contents.
    pub fn response<'a>(&self, request: &'a [u8]) -> &'a [u8]
        ensures { result.now ≡ response_to self.now request.now }
    {
        match self {
            KeyAnswer::Taken => request,
            KeyAnswer::NoSecret => b"\x03\x00\x00\x00",
            KeyAnswer::BadSecret => b"\x04\x00\x00\x00",
        }
    }
}

/// Puts the keys of an unwrapped text into their slots.
fn store(keys: SentKeys, key_length: usize, text: &[u8], even: &mut KeySlot, odd: &mut KeySlot)
    requires valid { IsKeyLength key_length }
    requires long { length text.now + 8 ≡ wrapped_length keys key_length }
    ensures { keys_of even.new odd.new ≡ replaced (keys_in_text keys key_length text.now) (keys_of even.old odd.old) }
{
    match keys {
        SentKeys::Even => even.put(&text[..key_length]),
        SentKeys::Odd => odd.put(&text[..key_length]),
        SentKeys::Both => {
            even.put(&text[..key_length]);
            odd.put(&text[key_length..]);
        }
    }
}

/// The keys of a publisher's session: the one that wraps, and the even and the odd one, with which packets are decrypted. Its
/// size is fixed.
#[derive(Drop)]
pub struct PublisherKeys {
    kek: WrappingKey,
    even: KeySlot,
    odd: KeySlot,
    undecrypted: u64,
}

impl PublisherKeys {
    ghost use Rattle.std.specs.Prelude.{IfSome};
    ghost use Rattle.srt_session_keys.specs.Publisher.{publisher_of, named_key, with_key, answer_to, keys_after, opened_by, PublisherIsErased};
    ghost use Rattle.srt_session_keys.specs.Publisher.{undecrypted_of, undecrypted_with, undecrypted_after, decrypted, decrypted_data};
    ghost use Rattle.srt_packet.specs.View.{body_of, packet_of};

    /// Returns the keys of a session that opens with this message. None if they can't be unwrapped: the passphrase is another.
    pub fn open(kek: WrappingKey, message: &KeyMessageRef<'_>) -> Option<PublisherKeys>
        ensures keys { option_map publisher_of result ≡ opened_by (kek_of kek) (salt_of kek) (message_of message.now) }
        ensures count { IfSome result (λ p. undecrypted_of p ≡ 0) }
    {
        let mut keys = PublisherKeys {
            kek,
            even: KeySlot::new(),
            odd: KeySlot::new(),
            undecrypted: 0,
        };
        if keys.take(message) { Some(keys) } else { None }
    }

    /// Takes the keys of a message, and returns whether they could be unwrapped.
    fn take(&mut self, message: &KeyMessageRef<'_>) -> bool
        ensures taken { result ≡ is_some (brings (kek_of self.old.kek) (message_of message.now)) }
        ensures keys { (publisher_of self.new).keys ≡ keys_by (brings (kek_of self.old.kek) (message_of message.now)) (publisher_of self.old).keys }
        ensures kek { self.new.kek ≡ self.old.kek }
        ensures count { undecrypted_of self.new ≡ undecrypted_of self.old }
    {
        let mut text = [0u8; 64];
        match self.kek.unwrapped(message, &mut text) {
            None => false,
            Some(len) => {
                store(
                    message.keys,
                    message.key_length,
                    &text[..len],
                    &mut self.even,
                    &mut self.odd,
                );
                true
            }
        }
    }

    /// Processes the contents of a KMREQ that arrives during the session. The keys that are taken apply from the next packet on;
    /// one of another name stays. Never derives a key from a passphrase.
    pub fn refresh(&mut self, contents: &[u8]) -> KeyAnswer
        ensures answer { result ≡ answer_to (publisher_of self.old) (message_in contents.now) }
        ensures keys { (publisher_of self.new).keys ≡ keys_after (publisher_of self.old) (message_in contents.now) }
        ensures kek { (publisher_of self.new).kek ≡ (publisher_of self.old).kek }
        ensures salt { (publisher_of self.new).salt ≡ (publisher_of self.old).salt }
        ensures count { undecrypted_of self.new ≡ undecrypted_of self.old }
    {
        match read_key_message(contents) {
            Err(_) => KeyAnswer::NoSecret,
            Ok(message) => self.refresh_by(&message),
        }
    }

    /// Processes a key material message that arrives during the session.
    fn refresh_by(&mut self, message: &KeyMessageRef<'_>) -> KeyAnswer
        ensures answer { result ≡ answer_to (publisher_of self.old) (Ok (message_of message.now)) }
        ensures keys { (publisher_of self.new).keys ≡ keys_after (publisher_of self.old) (Ok (message_of message.now)) }
        ensures kek { self.new.kek ≡ self.old.kek }
        ensures count { undecrypted_of self.new ≡ undecrypted_of self.old }
    {
        if !self.kek.fits(message) {
            return KeyAnswer::NoSecret;
        }
        if self.take(message) {
            KeyAnswer::Taken
        } else {
            KeyAnswer::BadSecret
        }
    }

    /// The length of the session's keys, in bytes: 16, 24 or 32.
    pub fn key_length(&self) -> usize
        ensures value { result ≡ length (publisher_of self.now).kek }
        ensures valid { IsKeyLength result }
    {
        self.kek.key_length()
    }

    /// Decrypts the payload of a data packet in place, by its encryption field and its sequence number, and returns whether the
    /// session has the key that it names. Otherwise nothing changes but the count of such packets. Its time doesn't depend on keys or
    /// payloads.
    pub fn decrypt(&mut self, encryption: u8, number: u32, payload: &mut [u8]) -> bool
        requires { length payload.old < 2032 }
        ensures held { result ≡ is_some (named_key encryption (publisher_of self.old).keys) }
        ensures payload { payload.new ≡
            with_key (named_key encryption (publisher_of self.old).keys) (publisher_of self.old).salt number payload.old }
        ensures count { undecrypted_of self.new ≡ undecrypted_with (named_key encryption (publisher_of self.old).keys) (undecrypted_of self.old) }
        ensures keys { publisher_of self.new ≡ publisher_of self.old }
    {
        let is_held = self.apply(encryption, number, payload);
        if !is_held {
            self.undecrypted = self.undecrypted.saturating_add(1);
        }
        is_held
    }

    /// Returns the packet as the session receives it: a data packet in clear, decrypted at the front of `place`, if the session has
    /// the key that it names; else it has the encryption field 3, so that it isn't received, and is counted. Other packets are
    /// unchanged. Copies a payload once.
    pub fn decrypt_packet<'a>(
        &mut self,
        packet: PacketRef<'a>,
        place: &'a mut [u8; 1456],
    ) -> PacketRef<'a>
        ensures packet { packet_of result ≡ decrypted (publisher_of self.old).keys (publisher_of self.old).salt (packet_of packet.entry) }
        ensures count { undecrypted_of self.new ≡ undecrypted_after (packet_of packet.entry).body (publisher_of self.old).keys (undecrypted_of self.old) }
        ensures keys { publisher_of self.new ≡ publisher_of self.old }
    {
        match packet.kind {
            Kind::Data {
                number,
                encryption,
                payload,
            } => PacketRef {
                stamp: packet.stamp,
                dest: packet.dest,
                kind: self.decrypt_data(number, encryption, payload, place),
            },
            _ => packet,
        }
    }

    /// The same of a data packet.
    fn decrypt_data<'a>(
        &mut self,
        number: u32,
        encryption: u8,
        payload: PayloadRef<'a>,
        place: &'a mut [u8; 1456],
    ) -> Kind<'a>
        ensures kind { body_of result ≡
            decrypted_data (named_key encryption (publisher_of self.old).keys) (publisher_of self.old).salt number payload.entry.bytes.now }
        ensures count { undecrypted_of self.new ≡ undecrypted_with (named_key encryption (publisher_of self.old).keys) (undecrypted_of self.old) }
        ensures keys { publisher_of self.new ≡ publisher_of self.old }
    {
        let len = payload.bytes.len();
        place[..len].copy_from_slice(payload.bytes);
        if self.decrypt(encryption, number, &mut place[..len]) {
            Kind::Data {
                number,
                encryption: 0,
                payload: PayloadRef {
                    bytes: &place[..len],
                },
            }
        } else {
            Kind::Data {
                number,
                encryption: 3,
                payload,
            }
        }
    }

    /// Decrypts a payload with the key that the encryption field names, and returns whether the session has it.
    fn apply(&self, encryption: u8, number: u32, payload: &mut [u8]) -> bool
        requires { length payload.old < 2032 }
        ensures held { result ≡ is_some (named_key encryption (publisher_of self.now).keys) }
        ensures payload { payload.new ≡
            with_key (named_key encryption (publisher_of self.now).keys) (publisher_of self.now).salt number payload.old }
    {
        match encryption {
            1 => self.even.apply(&self.kek.salt, number, payload),
            2 => self.odd.apply(&self.kek.salt, number, payload),
            _ => false,
        }
    }

    /// How many packets couldn't be decrypted since the session opened, at most 2^64 - 1.
    pub fn undecrypted(&self) -> u64
        ensures { result ≡ undecrypted_of self.now }
    {
        self.undecrypted
    }

    /// Overwrites all keys, their schedules and the salt with zeros, when the session ends.
    pub fn forget(&mut self)
        ensures erased { PublisherIsErased self.new }
        ensures count { undecrypted_of self.new ≡ undecrypted_of self.old }
    {
        self.kek.forget();
        self.even.forget();
        self.odd.forget();
    }
}
