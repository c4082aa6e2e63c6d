//! The keys of a subscriber's session (our choice).

ghost use Rattle.std.specs.Prelude.{◌≡◌, ◌<◌, ◌≤◌, ◌+◌, ◌^◌, take, length};
ghost use Rattle.srt_aes.specs.Aes.{IsKeyLength};
ghost use Rattle.srt_aes.specs.Keys.{key_of};
ghost use Rattle.srt_session_keys.specs.Source.{source_of, own, own_message};
ghost use Rattle.srt_session_keys.specs.Announced.{made_with};
ghost use Rattle.srt_session_keys.specs.inside.Stored.{slot_of, AreStored, IsStored};

use crate::announcement::{ANNOUNCED_BEFORE, Announcement, GIVEN_UP_AFTER_US, REPEATED_AFTER_US};
use crate::pool::KeyPool;
use crate::source::KeySource;
use crate::wrapping_key::WrappingKey;
use srt_aes::RoundKeys;
use srt_packet::EncodedPacket;
use srt_types::Peer;

/// Makes the key with an index: its schedule, in the place of the one before that has the same name, and its message, whose length
/// is returned.
fn make(
    source: &KeySource,
    index: u64,
    even: &mut RoundKeys,
    odd: &mut RoundKeys,
    message: &mut [u8; 104],
) -> usize
    ensures within { result ≤ 104 }
    ensures own { slot_of (key_of even.new) (key_of odd.new) index ≡ own (source_of source.now) index }
    ensures other { slot_of (key_of even.new) (key_of odd.new) (index + 1) ≡ slot_of (key_of even.old) (key_of odd.old) (index + 1) }
    ensures written { take result message.new ≡ own_message (source_of source.now) index }
{
    let bytes = source.own(index);
    let key = &bytes[..source.kek.key_length()];
    if index % 2 == 0 {
        *odd = RoundKeys::new(key);
    } else {
        *even = RoundKeys::new(key);
    }
    source.write_message(index, key, message)
}

/// The keys that the gateway makes for a subscriber's session: one for each 2^24 payloads, which the subscriber has to confirm
/// before payloads are sent under it. Payloads and keys count from 0. Its size is fixed.
#[derive(Drop)]
pub struct SubscriberKeys {
    source: KeySource,
    even: RoundKeys,
    odd: RoundKeys,
    message: [u8; 104],
    message_len: usize,
    confirmed: u64,
    announced: Option<Announcement>,
    ghost within: { message_len ≤ 104 },
    ghost few: { made_with confirmed announced ≤ 2 ^ 40 },
    ghost keys: { AreStored (key_of even) (key_of odd) (source_of source) (made_with confirmed announced) },
    ghost text: { IsStored (take message_len message) (source_of source) confirmed announced },
}

impl SubscriberKeys {
    ghost use Rattle.std.specs.Prelude.{None, IfSome, if◌then◌else◌};
    ghost use Rattle.srt_hs.specs.KeyMessage.{field_of};
    ghost use Rattle.srt_packet.specs.Encoded.{bytes_of};
    ghost use Rattle.srt_packet.specs.Encryption.{encrypted};
    ghost use Rattle.srt_session_keys.specs.Wrapping.{kek_of, salt_of};
    ghost use Rattle.srt_session_keys.specs.Source.{pool_of, pool_with, source_with, name_of};
    ghost use Rattle.srt_session_keys.specs.Announced.{is_given_up};
    ghost use Rattle.srt_session_keys.specs.Subscriber.{subscriber_of, index_of, made, is_due, with_announcement, confirms};
    ghost use Rattle.srt_session_keys.specs.Subscriber.{with_response, may_send, has_key, SubscriberIsErased};

    /// Returns the keys of a session with this ID that opens, and counts it in the pool of its route.
    pub fn open(
        kek: WrappingKey,
        session: u32,
        pool: &mut KeyPool,
        cookie: u32,
        peer: Peer,
    ) -> SubscriberKeys
        requires { (pool_of pool.old).count < 2 ^ 62 }
        ensures keys { subscriber_of result ≡ record {
          source = source_with (kek_of kek) (salt_of kek) session (record { cookie = cookie; peer = peer }) (pool_of pool.old);
          confirmed = 0;
          announced = None;
        } }
        ensures pool { pool_of pool.new ≡ pool_with (record { cookie = cookie; peer = peer }) (pool_of pool.old) }
    {
        let count = pool.count;
        pool.add(cookie, peer);
        SubscriberKeys {
            source: KeySource {
                kek,
                session,
                count,
                hash: pool.hash,
            },
            even: RoundKeys::none(),
            odd: RoundKeys::none(),
            message: [0; 104],
            message_len: 0,
            confirmed: 0,
            announced: None,
        }
    }

    /// Whether the next key is to be announced at `now`, in microseconds, if `queued` payloads were queued so far. One that is
    /// counts as sent: [`message`](Self::message) returns its contents. Makes the key at its first announcement.
    pub fn announce(&mut self, queued: u64, now: u64) -> bool
        requires { queued < 2 ^ 62 }
        ensures due { result ≡ is_due (subscriber_of self.old) queued now }
        ensures keys { subscriber_of self.new ≡
            if is_due (subscriber_of self.old) queued now then with_announcement now (subscriber_of self.old) else subscriber_of self.old }
    {
        if self.confirmed > (queued + ANNOUNCED_BEFORE) >> 24 {
            return false;
        }
        match self.announced {
            None => {
                self.message_len = make(
                    &self.source,
                    self.confirmed,
                    &mut self.even,
                    &mut self.odd,
                    &mut self.message,
                );
                self.announced = Some(Announcement {
                    first: now,
                    last: now,
                });
                true
            }
            Some(before) => {
                if now.saturating_sub(before.last) < REPEATED_AFTER_US {
                    return false;
                }
                self.announced = Some(Announcement {
                    first: before.first,
                    last: now,
                });
                true
            }
        }
    }

    /// The contents of the KMREQ that announces the next key, once [`announce`](Self::announce) made it. Computes nothing.
    pub fn message(&self) -> &[u8]
        ensures value { IfSome (subscriber_of self.now).announced
            (λ a. result.now ≡ own_message (subscriber_of self.now).source (subscriber_of self.now).confirmed) }
        ensures short { length result.now ≤ 104 }
    {
        &self.message[..self.message_len]
    }

    /// Processes the contents of a KMRSP, and returns whether they confirm the announced key: whether they are its message.
    /// Otherwise nothing changes.
    pub fn confirm(&mut self, contents: &[u8]) -> bool
        ensures confirmed { result ≡ confirms contents.now (subscriber_of self.old) }
        ensures keys { subscriber_of self.new ≡ with_response contents.now (subscriber_of self.old) }
    {
        match self.announced {
            None => false,
            Some(_) => {
                if contents[..] != self.message[..self.message_len] {
                    return false;
                }
                self.announced = None;
                self.confirmed += 1;
                true
            }
        }
    }

    /// Whether a payload may be sent: whether its key is confirmed.
    pub fn may_send(&self, payload: u64) -> bool
        ensures { result ≡ may_send (subscriber_of self.now) payload }
    {
        payload >> 24 < self.confirmed
    }

    /// The length of the session's keys, in bytes: 16, 24 or 32.
    pub fn key_length(&self) -> usize
        ensures value { result ≡ length (subscriber_of self.now).source.kek }
        ensures valid { IsKeyLength result }
    {
        self.source.kek.key_length()
    }

    /// How many keys are confirmed: those with lower indexes.
    pub fn confirmed(&self) -> u64
        ensures { result ≡ (subscriber_of self.now).confirmed }
    {
        let count = self.confirmed;
        count
    }

    /// How many keys were made: those that are confirmed, and the one that is announced.
    fn made(&self) -> u64
        ensures { result ≡ made (subscriber_of self.now) }
    {
        match self.announced {
            None => self.confirmed,
            Some(_) => self.confirmed + 1,
        }
    }

    /// Whether the key of a payload is stored, as [`encrypt_packet`](Self::encrypt_packet) requires: whether it is one of the
    /// last two that were made.
    pub fn has_key(&self, payload: u64) -> bool
        ensures { result ≡ has_key (subscriber_of self.now) payload }
    {
        let index = payload >> 24;
        let made = self.made();
        if index >= made {
            return false;
        }
        made <= index + 2
    }

    /// Whether the session is to end at `now`, in microseconds, since the subscriber doesn't confirm the announced key.
    pub fn is_given_up(&self, now: u64) -> bool
        ensures { result ≡ is_given_up now (subscriber_of self.now).announced }
    {
        match self.announced {
            None => false,
            Some(announced) => now.saturating_sub(announced.first) >= GIVEN_UP_AFTER_US,
        }
    }

    /// Encrypts a data packet in place, of which this is the payload's index, and names the key in its field KK. The key is one of
    /// the last two that were made. Its time doesn't depend on keys or payloads.
    pub fn encrypt_packet(&self, payload: u64, packet: &mut EncodedPacket)
        requires made { index_of payload < made (subscriber_of self.now) }
        requires stored { made (subscriber_of self.now) ≤ index_of payload + 2 }
        ensures { bytes_of packet.new ≡ encrypted (field_of (name_of (index_of payload))) (own (subscriber_of self.now).source (index_of payload))
            (subscriber_of self.now).source.salt (bytes_of packet.old) }
    {
        if (payload >> 24) % 2 == 0 {
            packet.encrypt(2, &self.odd, &self.source.kek.salt);
        } else {
            packet.encrypt(1, &self.even, &self.source.kek.salt);
        }
    }

    /// Overwrites all keys, their schedules, what they are made of and the stored message with zeros, when the session ends.
    pub fn forget(&mut self)
        ensures { SubscriberIsErased self.new }
    {
        self.confirmed = 0;
        self.announced = None;
        self.source.forget();
        self.even.forget();
        self.odd.forget();
        self.message = [0; 104];
        self.message_len = 0;
    }
}
