//! The words of an address and its port.

use crate::text::Words;
use srt_types::Peer;
use std::fmt::InlineText;
use std::net::Ipv6Addr;

/// The room for the text of an address, in bytes. The longest has 39: eight groups of four hexadecimal digits.
const ADDRESS_ROOM: usize = 64;

/// Puts an address: an IPv4 address as four numbers, an IPv6 address in brackets.
fn put_ip(words: &mut Words, ip: [u8; 16]) {
    let address = Ipv6Addr::from(ip);
    match address.to_ipv4_mapped() {
        Some(ipv4) => words.put(InlineText::<ADDRESS_ROOM>::of(&ipv4).as_str().as_bytes()),
        None => {
            words.put(b"[");
            words.put(InlineText::<ADDRESS_ROOM>::of(&address).as_str().as_bytes());
            words.put(b"]");
        }
    }
}

/// Puts an address and its port, with a colon between them.
pub(crate) fn put_peer(words: &mut Words, peer: Peer) {
    put_ip(words, peer.ip);
    words.put(b":");
    words.put_number(u64::from(peer.port));
}
