//! The encoded bytes of a packet, kept until they are sent.

ghost use Rattle.std.specs.Prelude.{◌≡◌, ◌<◌, ◌≤◌, [], length, take, drop};
ghost use Rattle.srt_packet.specs.Held.{IsPacketOrNothing};
ghost use Rattle.srt_packet.specs.Text.{text, IsWritable};

use crate::encryption::encrypt_front;
use crate::key_codec::encode_key_packet;
use crate::key_packet::KeyPacketRef;
use crate::writing::{Packet, encode};
use srt_aes::RoundKeys;
use srt_types::protocol_limits::MAX_DATAGRAM;
use srt_types::write_at;

// An array with a separate length, so that a write touches only the bytes of the packet.
#[derive(Drop)]
struct PacketArray {
    bytes: [u8; MAX_DATAGRAM],
}

/// The encoded bytes of a packet to be sent: 16 to 1472, or none before the first write. A packet is encoded in place
/// and stays there until it is sent. So a payload is copied once, and encrypted where it is, and the write of a packet
/// without payload touches only its bytes.
#[derive(Drop)]
pub struct EncodedPacket {
    len: usize,
    array: PacketArray,
    pub ghost fits: { len ≤ 1472 },
    pub ghost holds: { IsPacketOrNothing (take len array.bytes) },
}

impl EncodedPacket {
    ghost use Rattle.srt_aes.specs.Aes.{IsKeyLength};
    ghost use Rattle.srt_aes.specs.Keys.{key_of};
    ghost use Rattle.srt_packet.specs.Encoded.{bytes_of, IsPacketText};
    ghost use Rattle.srt_packet.specs.Encryption.{encrypted};
    ghost use Rattle.srt_packet.specs.KeyPacket.{key_packet_of, key_packet_text};

    /// Returns a value without bytes. Doesn't allocate: the value has a fixed size.
    #[tactic(auto, unfolding(crate::specs::Held::is_packet_or_nothing))]
    pub fn new() -> EncodedPacket
        ensures { bytes_of result ≡ [] }
    {
        EncodedPacket {
            len: 0,
            array: PacketArray {
                bytes: [0; MAX_DATAGRAM],
            },
        }
    }

    /// Encodes a packet over the previous content. Copies a payload once; doesn't allocate.
    #[tactic(auto, unfolding(crate::specs::Held::is_packet_or_nothing))]
    #[inline(always)]
    pub fn write(&mut self, packet: &Packet<'_>)
        requires { IsWritable packet.now.body }
        ensures written { bytes_of self.new ≡ text packet.now }
        ensures packet { IsPacketText (bytes_of self.new) }
    {
        self.len = encode(packet, &mut self.array.bytes);
    }

    /// Encodes a packet that brings a key material message over the previous content. The message has at most 1456 bytes.
    /// Copies it once; doesn't allocate.
    #[tactic(auto, unfolding(crate::specs::Held::is_packet_or_nothing))]
    pub fn write_key_packet(&mut self, packet: &KeyPacketRef<'_>)
        requires { length packet.now.info.now ≤ 1456 }
        ensures { bytes_of self.new ≡ key_packet_text (key_packet_of packet.now) }
    {
        self.len = encode_key_packet(packet, &mut self.array.bytes);
    }

    /// Encrypts the payload of a data packet in place. `encryption` is the field KK, 1 for the even key and 2 for the odd one
    /// (section 3.1); the packet's sequence number and the salt determine the counter blocks. Other packets are unchanged, and
    /// so are data packets that are encrypted. Doesn't allocate. Its time doesn't depend on key or payload.
    #[tactic(auto, unfolding(crate::specs::Held::is_packet_or_nothing))]
    pub fn encrypt(&mut self, encryption: u8, keys: &RoundKeys, salt: &[u8; 16])
        requires named { encryption < 4 }
        requires whole { IsKeyLength (length (key_of keys.now)) }
        ensures { bytes_of self.new ≡ encrypted encryption (key_of keys.now) salt.now (bytes_of self.old) }
    {
        encrypt_front(&mut self.array.bytes, self.len, encryption, keys, salt);
    }

    /// Returns the bytes.
    #[inline(always)]
    pub fn bytes(&self) -> &[u8]
        ensures value { result.now ≡ bytes_of self.now }
        ensures fits { length result.now ≤ 1472 }
        ensures packet { IsPacketOrNothing result.now }
    {
        &self.array.bytes[..self.len]
    }

    /// Copies the bytes to the front of `out`, and returns their number. The rest of `out` is unchanged.
    pub fn copy_to(&self, out: &mut [u8; MAX_DATAGRAM]) -> usize
        ensures within { result ≤ 1472 }
        ensures written { take result out.new ≡ bytes_of self.now }
        ensures kept { drop result out.new ≡ drop result out.old }
        ensures packet { IsPacketOrNothing (take result out.new) }
    {
        write_at(out, 0, self.bytes())
    }
}
