//! Key schedules (FIPS 197).

ghost use Rattle.std.specs.Prelude.{◌≡◌, ◌<◌, ◌≤◌, ◌+◌, ◌-◌, ◌*◌, ◌/◌, ◌%◌, ℕ, List, [], ◌∷◌, ◌++◌, ◌⊎◌, take, length, slice_index};
ghost use Rattle.srt_aes.specs.Aes.{sub_word, turned_word, rcon, temp_after, next_word, expanded, schedule_of, round_key, IsKeyLength};
ghost use Rattle.srt_aes.specs.inside.Planes.{HoldsKey, HoldKeys};

use crate::circuit::substitute;
use crate::planes::{byte, doubled, first, spread};

/// The words Rcon[0] to Rcon[10], of which only the first byte isn't 0; Rcon[0] isn't used.
const ROUND_CONSTANTS: [u8; 11] = [
    0x8d, 0x01, 0x02, 0x04, 0x08, 0x10, 0x20, 0x40, 0x80, 0x1b, 0x36,
];

fn round_constant(round: usize) -> u8
    requires { round < 11 }
    ensures { result ≡ rcon round }
{
    ROUND_CONSTANTS[round]
}

/// SubWord(), by the same circuit as the rounds.
fn substitute_word(word: &[u8; 4]) -> [u8; 4]
    ensures { result ≡ sub_word word.now }
{
    let block = [
        word[0], word[1], word[2], word[3], 0, 0, 0, 0, 0, 0, 0, 0, 0, 0, 0, 0,
    ];
    let planes = spread(0, &block);
    let closed = first(substitute(doubled(&planes)));
    [
        byte(&closed, 0),
        byte(&closed, 16),
        byte(&closed, 32),
        byte(&closed, 48),
    ]
}

/// RotWord() and SubWord() of a word, with Rcon of a round added.
fn turn_word(temp: [u8; 4], round: usize) -> [u8; 4]
    requires { round < 11 }
    ensures { result ≡ turned_word temp round }
{
    let word = substitute_word(&[temp[1], temp[2], temp[3], temp[0]]);
    [word[0] ^ round_constant(round), word[1], word[2], word[3]]
}

/// What is added to a word of the schedule for the one that comes `nk` words later.
#[tactic(auto, unfolding(crate::specs::Aes::temp_after))]
fn temp_after(nk: usize, i: usize, temp: [u8; 4]) -> [u8; 4]
    requires some { 0 < nk }
    requires few { i / nk < 11 }
    ensures { result ≡ temp_after nk i temp }
{
    if i % nk == 0 {
        turn_word(temp, i / nk)
    } else if nk > 6 && i % nk == 4 {
        substitute_word(&temp)
    } else {
        temp
    }
}

/// Word `i` of a schedule, from the words before it.
fn next_word(words: &[u8; 240], nk: usize, i: usize) -> [u8; 4]
    requires some { 0 < nk }
    requires later { nk ≤ i }
    requires inside { i < 60 }
    requires few { i / nk < 11 }
    ensures { result ≡ next_word nk i words.now }
{
    let last = 4 * (i - 1);
    let temp = temp_after(
        nk,
        i,
        [
            words[last],
            words[last + 1],
            words[last + 2],
            words[last + 3],
        ],
    );
    let at = 4 * (i - nk);
    [
        words[at] ^ temp[0],
        words[at + 1] ^ temp[1],
        words[at + 2] ^ temp[2],
        words[at + 3] ^ temp[3],
    ]
}

/// Copies `bytes` to the offset `at`.
fn write(words: &mut [u8; 240], at: usize, bytes: &[u8])
    requires { at + length bytes.now ≤ 240 }
    ensures { take (at + length bytes.now) words.new ≡ take at words.old ++ bytes.now }
{
    words[at..at + bytes.len()].copy_from_slice(bytes);
}

/// KeyExpansion(): the words of the schedule, as bytes, with zeros behind them.
pub(crate) fn expand(key: &[u8]) -> [u8; 240]
    requires { IsKeyLength (length key.now) }
    ensures { take (4 * length key.now + 112) result ≡ schedule_of key.now }
{
    let nk = key.len() / 4;
    let mut words = [0u8; 240];
    write(&mut words, 0, key);
    for i in nk..4 * nk + 28 {
        let word = next_word(&words, nk, i);
        write(&mut words, 4 * i, &word);
    }
    words
}

/// The round key of a round in a schedule.
pub(crate) fn round_key(words: &[u8], round: usize) -> [u8; 16]
    requires { 16 * round + 16 ≤ length words.now }
    ensures { result ≡ round_key words.now round }
{
    let at = 16 * round;
    [
        words[at],
        words[at + 1],
        words[at + 2],
        words[at + 3],
        words[at + 4],
        words[at + 5],
        words[at + 6],
        words[at + 7],
        words[at + 8],
        words[at + 9],
        words[at + 10],
        words[at + 11],
        words[at + 12],
        words[at + 13],
        words[at + 14],
        words[at + 15],
    ]
}

/// The round key of a round, in planes.
fn plane_key(words: &[u8], round: usize) -> [u64; 8]
    requires { 16 * round + 16 ≤ length words.now }
    ensures { HoldsKey result (round % 4) (round_key words.now round) }
{
    spread(round % 4, &round_key(words, round))
}

/// The round keys of the rounds up to `last`, in planes.
pub(crate) fn plane_keys(words: &[u8], last: usize) -> [[u64; 8]; 15]
    requires some { 16 * last + 16 ≤ length words.now }
    requires few { last < 15 }
    ensures { HoldKeys result words.now last }
{
    let mut keys = [[0u64; 8]; 15];
    for round in 0..last + 1 {
        let key = plane_key(words, round);
        keys[round] = key;
    }
    keys
}
