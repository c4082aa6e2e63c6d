//! Key material messages, decoded from borrowed bytes and encoded (draft-sharabayko-srt-01, section 3.2.2).

ghost use Rattle.std.specs.Prelude.{◌≡◌, ℕ, ◌≤◌, ◌++◌, length, take, drop, IfOk, IsOkAnd};
ghost use Rattle.srt_hs.specs.KeyMessage.{KeyMessage as TheMessage, SpellsKeys, IsKeyLength, field_of, wrapped_length, keys_in, key_length_in};
ghost use Rattle.srt_hs.specs.KeyMessage.{message_in, message_text};
ghost use Rattle.srt_hs.specs.KeyView.{message_of, message_read};

use crate::key_message::{KeyFault, KeyMessageRef, SentKeys};
use srt_types::protocol_limits::MAX_KEY_MESSAGE;
use srt_types::{read_word, write_at};

/// The length of the wrapped keys, in bytes.
fn wrapped_len(keys: SentKeys, key_length: usize) -> usize
    requires { IsKeyLength key_length }
    ensures { result ≡ wrapped_length keys key_length }
{
    match keys {
        SentKeys::Even => 8 + key_length,
        SentKeys::Odd => 8 + key_length,
        SentKeys::Both => 8 + 2 * key_length,
    }
}

/// Reads the first four bytes.
#[tactic(auto, unfolding(crate::specs::KeyMessage::keys_in))]
fn read_keys(bytes: &[u8]) -> Result<SentKeys, KeyFault>
    requires { 16 ≤ length bytes.now }
    ensures { result ≡ keys_in bytes.now }
{
    if read_word(bytes, 0) >> 8 != 0x12_2029 {
        return Err(KeyFault::Sign);
    }
    match bytes[3] % 4 {
        1 => Ok(SentKeys::Even),
        2 => Ok(SentKeys::Odd),
        3 => Ok(SentKeys::Both),
        _ => Err(KeyFault::Keys),
    }
}

/// Reads the twelve bytes behind the first four.
#[tactic(auto, unfolding(crate::specs::KeyMessage::key_length_in))]
fn read_key_length(bytes: &[u8]) -> Result<usize, KeyFault>
    requires { 16 ≤ length bytes.now }
    ensures value { result ≡ key_length_in bytes.now }
    ensures valid { IfOk result (λ n. IsKeyLength n) }
{
    if read_word(bytes, 4) != 0 {
        return Err(KeyFault::Keki);
    }
    if bytes[8] != 2 {
        return Err(KeyFault::Cipher);
    }
    if bytes[9] != 0 {
        return Err(KeyFault::Auth);
    }
    if bytes[10] != 2 {
        return Err(KeyFault::Encapsulation);
    }
    if bytes[14] != 4 {
        return Err(KeyFault::SaltLength);
    }
    match bytes[15] {
        4 => Ok(16),
        6 => Ok(24),
        8 => Ok(32),
        _ => Err(KeyFault::KeyLength),
    }
}

/// The salt of a message.
fn salt_of(bytes: &[u8]) -> [u8; 16]
    requires { 32 ≤ length bytes.now }
    ensures { result ≡ take 16 (drop 16 bytes.now) }
{
    let mut salt = [0u8; 16];
    salt.copy_from_slice(&bytes[16..32]);
    salt
}

/// The result of [`read_key_message`].
#[tactic(auto, unfolding(crate::specs::KeyMessage::message_in))]
fn parse(bytes: &[u8]) -> Result<KeyMessageRef<'_>, KeyFault>
    ensures { message_read result ≡ message_in bytes.now }
{
    if bytes.len() < 16 {
        return Err(KeyFault::Short);
    }
    let keys = read_keys(bytes)?;
    let key_length = read_key_length(bytes)?;
    let len = 32 + wrapped_len(keys, key_length);
    if bytes.len() != len {
        return Err(KeyFault::Length);
    }
    Ok(KeyMessageRef {
        keys,
        key_length,
        salt: salt_of(bytes),
        wrapped: &bytes[32..],
    })
}

/// Reads the contents of a KMREQ or KMRSP block, or the bytes after the header of a packet that brings keys. Checks their
/// form alone: whether the keys can be unwrapped isn't known here. Copies the salt. O(1).
pub fn read_key_message(bytes: &[u8]) -> Result<KeyMessageRef<'_>, KeyFault>
    // The result as a function of the bytes; a fault is the first.
    ensures value { message_read result ≡ message_in bytes.now }
    // The bytes encode the returned message.
    ensures found { IfOk result (λ m. SpellsKeys bytes.now (message_of m)) }
    // A message that the bytes encode is returned.
    ensures only { (message : TheMessage) → SpellsKeys bytes.now message → IsOkAnd result (λ m. message_of m ≡ message) }
{
    parse(bytes)
}

/// The field KK.
fn field(keys: SentKeys) -> u8
    ensures { result ≡ field_of keys }
{
    match keys {
        SentKeys::Even => 1,
        SentKeys::Odd => 2,
        SentKeys::Both => 3,
    }
}

/// Writes a message to the front of the buffer, and returns its length in bytes: 56 to 104. All that a reader doesn't check is
/// 0. The rest of the buffer is unchanged. O(1).
pub fn write_key_message(message: &KeyMessageRef<'_>, out: &mut [u8; MAX_KEY_MESSAGE]) -> usize
    ensures within { result ≤ 104 }
    ensures written { take result out.new ≡ message_text (message_of message.now) }
    ensures kept { (k : ℕ) → result ≤ k → drop k out.new ≡ drop k out.old }
{
    let words = (message.key_length / 4) as u8;
    let head = [
        0x12,
        0x20,
        0x29,
        field(message.keys),
        0,
        0,
        0,
        0,
        2,
        0,
        2,
        0,
        0,
        0,
        4,
        words,
    ];
    let end = write_at(out, 0, &head);
    let end = write_at(out, end, &message.salt);
    write_at(out, end, message.wrapped)
}
