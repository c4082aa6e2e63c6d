//! Data packets that are encrypted in place (draft-sharabayko-srt-01, section 3.1).

ghost use Rattle.std.specs.Prelude.{◌≡◌, ◌+◌, ◌*◌, ◌^◌, ◌<◌, ◌≤◌, ◌++◌, true, length, take, drop};
ghost use Rattle.srt_types.specs.Words.{word, word_at};
ghost use Rattle.srt_aes.specs.Aes.{IsKeyLength};
ghost use Rattle.srt_aes.specs.Keys.{key_of};
ghost use Rattle.srt_packet.specs.Encryption.{is_in_clear, encrypted};

use srt_aes::RoundKeys;
use srt_types::protocol_limits::MAX_DATAGRAM;
use srt_types::{read_word, write_at};

/// Whether these bytes are a data packet whose payload isn't encrypted.
fn is_in_clear(bytes: &[u8]) -> bool
    ensures { result ≡ is_in_clear bytes.now }
{
    if bytes.len() <= 16 {
        return false;
    }
    if read_word(bytes, 0) >= 1 << 31 {
        return false;
    }
    (read_word(bytes, 4) >> 27) & 3 == 0
}

/// Sets the field KK, which is 0.
fn set_field(bytes: &mut [u8], encryption: u8)
    requires clear { is_in_clear bytes.old ≡ true }
    requires named { encryption < 4 }
    ensures long { length bytes.new ≡ length bytes.old }
    ensures front { take 8 bytes.new ≡ take 4 bytes.old ++ word (word_at bytes.old 4 + encryption * 2 ^ 27) }
    ensures kept { drop 8 bytes.new ≡ drop 8 bytes.old }
{
    let word1 = read_word(bytes, 4) + (u32::from(encryption) << 27);
    write_at(bytes, 4, &word1.to_be_bytes());
}

/// Encrypts the payload of a data packet in clear, and sets the field KK. Other bytes are unchanged.
fn encrypt_packet(bytes: &mut [u8], encryption: u8, keys: &RoundKeys, salt: &[u8; 16])
    requires limit { length bytes.old ≤ 1472 }
    requires named { encryption < 4 }
    requires whole { IsKeyLength (length (key_of keys.now)) }
    ensures { bytes.new ≡ encrypted encryption (key_of keys.now) salt.now bytes.old }
{
    if !is_in_clear(bytes) {
        return;
    }
    let number = read_word(bytes, 0);
    set_field(bytes, encryption);
    keys.apply(salt, number, &mut bytes[16..]);
}

/// The same of the packet in the first bytes of an array.
pub(crate) fn encrypt_front(
    array: &mut [u8; MAX_DATAGRAM],
    len: usize,
    encryption: u8,
    keys: &RoundKeys,
    salt: &[u8; 16],
)
    requires within { len ≤ 1472 }
    requires named { encryption < 4 }
    requires whole { IsKeyLength (length (key_of keys.now)) }
    ensures { take len array.new ≡ encrypted encryption (key_of keys.now) salt.now (take len array.old) }
{
    encrypt_packet(&mut array[..len], encryption, keys, salt);
}
