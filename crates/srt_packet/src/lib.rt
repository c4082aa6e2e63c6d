//! SRT packets: decoded from borrowed bytes, and encoded into a buffer (draft-sharabayko-srt-01, section 3).
//!
//! It knows the format of packets, and no sessions. It doesn't parse handshakes (`srt_hs`) or loss lists (`srt_loss`),
//! and it reads sequence numbers as plain words. It doesn't allocate.
//!
//! Decoding, in `reading.rt`: [`decode`] reads the bytes of a datagram, [`decode_parts`] its first 16 bytes and the
//! bytes after them. Both return a [`PacketRef`], whose [`Kind`] borrows the bytes, or the first [`PacketFault`].
//! Subtypes, and bytes after the end of a control packet's information, are ignored.
//!
//! Encoding, in `writing.rt`: fill a [`Packet`] with a [`Body`], and [`encode`] it. Each packet has exactly one
//! encoding here. An [`EncodedPacket`], in `encoded.rt`, holds the bytes of a packet until they are sent, and encrypts a data
//! packet where it is (`encryption.rt`, `specs/Encryption.antt`).
//!
//! Packets that bring key material messages, KMREQ and KMRSP, are [`Kind::UserDefined`] for these functions. `key_codec.rt`
//! reads and writes them: [`decode_key_packet`], [`decode_key_parts`] and [`encode_key_packet`], with a [`KeyPacketRef`]
//! (`key_packet.rt`); `specs/KeyPacket.antt` defines them.
//!
//! `specs/Grammar.antt` defines which bytes encode which packet, `specs/Reading.antt` the faults and their order, and
//! `specs/Text.antt` the bytes that are written. `laws.rt` connects the three: what is written reads back as the same
//! packet.
#![tactic(auto)]

mod encoded;
mod encryption;
mod key_codec;
mod key_packet;
pub mod laws;
mod reading;
mod writing;

pub use encoded::EncodedPacket;
pub use key_codec::{decode_key_packet, decode_key_parts, encode_key_packet};
pub use key_packet::{KeyPacketKind, KeyPacketRef};
pub use reading::{Kind, PacketFault, PacketRef, decode, decode_parts};
pub use writing::{Body, Packet, Rates, encode};

#[cfg(test)]
mod tests;
