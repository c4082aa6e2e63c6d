//! Addresses and bytes in hexadecimal digits, in a tape's fields.

ghost use Rattle.std.specs.Prelude.{◌≡◌, ◌≤◌, length, take, option_map, IfSome};
ghost use Rattle.srt_replay.specs.Tape.{bytes_in, address_in};

use srt_types::product_limits::MAX_TAPE_DATAGRAM;

/// Reads an address: 16 bytes in 32 hexadecimal digits, of either case.
#[tactic(auto, unfolding(crate::specs::Tape::address_in))]
pub fn read_address(text: &[u8]) -> Option<[u8; 16]>
    ensures { result ≡ address_in text.now }
{
    let mut ip = [0; 16];
    match hex::decode_to_slice(text, &mut ip) {
        Ok(()) => Some(ip),
        Err(_) => None,
    }
}

/// Reads hexadecimal digits, of either case, into the front of `out`. Returns the number of bytes; None if they aren't
/// pairs of digits. A failed read may change `out`.
#[tactic(auto, unfolding(crate::specs::Tape::bytes_in))]
pub fn read_bytes(text: &[u8], out: &mut [u8; MAX_TAPE_DATAGRAM]) -> Option<usize>
    requires { length text.now ≤ 4096 }
    ensures within { IfSome result (λ n. n ≤ 2048) }
    ensures bytes { option_map (λ n. take n out.new) result ≡ bytes_in text.now }
{
    let len = text.len() / 2;
    match hex::decode_to_slice(text, &mut out[..len]) {
        Ok(()) => Some(len),
        Err(_) => None,
    }
}
