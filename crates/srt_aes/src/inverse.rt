//! The inverse cipher, byte by byte (FIPS 197).

ghost use Rattle.std.specs.Prelude.{◌≡◌, ◌<◌, ◌≤◌, ◌+◌, ◌*◌, ◌∷◌, [], length};
ghost use Rattle.srt_aes.specs.Aes.{xtime, times_9, times_b, times_d, times_e, inv_mixed, inv_sub_byte, inv_sub_bytes, inv_shift_rows};
ghost use Rattle.srt_aes.specs.Aes.{inv_mix_columns, add_round_key, inv_cipher};

use crate::schedule::round_key;

/// The inverse S-box (figure 14).
const INVERSE: [u8; 256] = [
    0x52, 0x09, 0x6a, 0xd5, 0x30, 0x36, 0xa5, 0x38, 0xbf, 0x40, 0xa3, 0x9e, 0x81, 0xf3, 0xd7, 0xfb,
    0x7c, 0xe3, 0x39, 0x82, 0x9b, 0x2f, 0xff, 0x87, 0x34, 0x8e, 0x43, 0x44, 0xc4, 0xde, 0xe9, 0xcb,
    0x54, 0x7b, 0x94, 0x32, 0xa6, 0xc2, 0x23, 0x3d, 0xee, 0x4c, 0x95, 0x0b, 0x42, 0xfa, 0xc3, 0x4e,
    0x08, 0x2e, 0xa1, 0x66, 0x28, 0xd9, 0x24, 0xb2, 0x76, 0x5b, 0xa2, 0x49, 0x6d, 0x8b, 0xd1, 0x25,
    0x72, 0xf8, 0xf6, 0x64, 0x86, 0x68, 0x98, 0x16, 0xd4, 0xa4, 0x5c, 0xcc, 0x5d, 0x65, 0xb6, 0x92,
    0x6c, 0x70, 0x48, 0x50, 0xfd, 0xed, 0xb9, 0xda, 0x5e, 0x15, 0x46, 0x57, 0xa7, 0x8d, 0x9d, 0x84,
    0x90, 0xd8, 0xab, 0x00, 0x8c, 0xbc, 0xd3, 0x0a, 0xf7, 0xe4, 0x58, 0x05, 0xb8, 0xb3, 0x45, 0x06,
    0xd0, 0x2c, 0x1e, 0x8f, 0xca, 0x3f, 0x0f, 0x02, 0xc1, 0xaf, 0xbd, 0x03, 0x01, 0x13, 0x8a, 0x6b,
    0x3a, 0x91, 0x11, 0x41, 0x4f, 0x67, 0xdc, 0xea, 0x97, 0xf2, 0xcf, 0xce, 0xf0, 0xb4, 0xe6, 0x73,
    0x96, 0xac, 0x74, 0x22, 0xe7, 0xad, 0x35, 0x85, 0xe2, 0xf9, 0x37, 0xe8, 0x1c, 0x75, 0xdf, 0x6e,
    0x47, 0xf1, 0x1a, 0x71, 0x1d, 0x29, 0xc5, 0x89, 0x6f, 0xb7, 0x62, 0x0e, 0xaa, 0x18, 0xbe, 0x1b,
    0xfc, 0x56, 0x3e, 0x4b, 0xc6, 0xd2, 0x79, 0x20, 0x9a, 0xdb, 0xc0, 0xfe, 0x78, 0xcd, 0x5a, 0xf4,
    0x1f, 0xdd, 0xa8, 0x33, 0x88, 0x07, 0xc7, 0x31, 0xb1, 0x12, 0x10, 0x59, 0x27, 0x80, 0xec, 0x5f,
    0x60, 0x51, 0x7f, 0xa9, 0x19, 0xb5, 0x4a, 0x0d, 0x2d, 0xe5, 0x7a, 0x9f, 0x93, 0xc9, 0x9c, 0xef,
    0xa0, 0xe0, 0x3b, 0x4d, 0xae, 0x2a, 0xf5, 0xb0, 0xc8, 0xeb, 0xbb, 0x3c, 0x83, 0x53, 0x99, 0x61,
    0x17, 0x2b, 0x04, 0x7e, 0xba, 0x77, 0xd6, 0x26, 0xe1, 0x69, 0x14, 0x63, 0x55, 0x21, 0x0c, 0x7d,
];

fn inverse_byte(byte: u8) -> u8
    ensures { result ≡ inv_sub_byte byte }
{
    INVERSE[byte as usize]
}

/// InvShiftRows() and InvSubBytes().
fn inverse_bytes(state: [u8; 16]) -> [u8; 16]
    ensures { result ≡ inv_sub_bytes (inv_shift_rows state) }
{
    [
        inverse_byte(state[0]),
        inverse_byte(state[13]),
        inverse_byte(state[10]),
        inverse_byte(state[7]),
        inverse_byte(state[4]),
        inverse_byte(state[1]),
        inverse_byte(state[14]),
        inverse_byte(state[11]),
        inverse_byte(state[8]),
        inverse_byte(state[5]),
        inverse_byte(state[2]),
        inverse_byte(state[15]),
        inverse_byte(state[12]),
        inverse_byte(state[9]),
        inverse_byte(state[6]),
        inverse_byte(state[3]),
    ]
}

/// xtime(), a byte times {02}.
#[tactic(auto, unfolding(crate::specs::Aes::xtime))]
fn twice(byte: u8) -> u8
    ensures { result ≡ xtime byte }
{
    if byte < 128 {
        2 * byte
    } else {
        (2 * (byte - 128)) ^ 0x1b
    }
}

fn times_9(byte: u8) -> u8
    ensures { result ≡ times_9 byte }
{
    twice(twice(twice(byte))) ^ byte
}

fn times_b(byte: u8) -> u8
    ensures { result ≡ times_b byte }
{
    let double = twice(byte);
    twice(twice(double)) ^ double ^ byte
}

fn times_d(byte: u8) -> u8
    ensures { result ≡ times_d byte }
{
    let fourfold = twice(twice(byte));
    twice(fourfold) ^ fourfold ^ byte
}

fn times_e(byte: u8) -> u8
    ensures { result ≡ times_e byte }
{
    let double = twice(byte);
    let fourfold = twice(double);
    twice(fourfold) ^ fourfold ^ double
}

/// A byte of InvMixColumns().
fn unmixed(a: u8, b: u8, c: u8, d: u8) -> u8
    ensures { result ≡ inv_mixed a b c d }
{
    times_e(a) ^ times_b(b) ^ times_d(c) ^ times_9(d)
}

/// InvMixColumns() of a column.
fn unmix_column(a: u8, b: u8, c: u8, d: u8) -> [u8; 4]
    ensures { result ≡ inv_mixed a b c d ∷ inv_mixed b c d a ∷ inv_mixed c d a b ∷ inv_mixed d a b c ∷ [] }
{
    [
        unmixed(a, b, c, d),
        unmixed(b, c, d, a),
        unmixed(c, d, a, b),
        unmixed(d, a, b, c),
    ]
}

/// InvMixColumns().
fn unmix(state: [u8; 16]) -> [u8; 16]
    ensures { result ≡ inv_mix_columns state }
{
    let a = unmix_column(state[0], state[1], state[2], state[3]);
    let b = unmix_column(state[4], state[5], state[6], state[7]);
    let c = unmix_column(state[8], state[9], state[10], state[11]);
    let d = unmix_column(state[12], state[13], state[14], state[15]);
    [
        a[0], a[1], a[2], a[3], b[0], b[1], b[2], b[3], c[0], c[1], c[2], c[3], d[0], d[1], d[2],
        d[3],
    ]
}

/// AddRoundKey().
fn add_round_key(state: [u8; 16], key: [u8; 16]) -> [u8; 16]
    ensures { result ≡ add_round_key state key }
{
    [
        state[0] ^ key[0],
        state[1] ^ key[1],
        state[2] ^ key[2],
        state[3] ^ key[3],
        state[4] ^ key[4],
        state[5] ^ key[5],
        state[6] ^ key[6],
        state[7] ^ key[7],
        state[8] ^ key[8],
        state[9] ^ key[9],
        state[10] ^ key[10],
        state[11] ^ key[11],
        state[12] ^ key[12],
        state[13] ^ key[13],
        state[14] ^ key[14],
        state[15] ^ key[15],
    ]
}

/// InvCipher() of a block, with a key schedule of `last` rounds.
pub(crate) fn open(words: &[u8], last: usize, block: [u8; 16]) -> [u8; 16]
    requires some { 0 < last }
    requires few { last < 15 }
    requires all { 16 * last + 16 ≤ length words.now }
    ensures { result ≡ inv_cipher words.now last block }
{
    let mut state = add_round_key(block, round_key(words, last));
    for count in 1..last {
        state = unmix(add_round_key(inverse_bytes(state), round_key(words, last - count)));
    }
    add_round_key(inverse_bytes(state), round_key(words, 0))
}
