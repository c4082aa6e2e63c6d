//! Arithmetic of sequence numbers, modulo 2^31.

ghost use Rattle.std.specs.Prelude.{◌≡◌, ◌-◌, ◌%◌, ◌^◌, ◌<◌};
ghost use Rattle.srt_types.specs.Window.{offset_of, word_of};

use srt_types::Seq31;

/// Returns the distance from `from` forward to `to`, in packets, modulo 2^31.
pub fn steps(from: Seq31, to: Seq31) -> u32
    ensures value { result ≡ offset_of (word_of to) (word_of from) }
    ensures below { result < 2 ^ 31 }
{
    (to.get() + ((1 << 31) - from.get())) & 0x7fff_ffff
}

/// Returns the sequence number in the lower 31 bits of a word.
pub fn number_of(word: u32) -> Seq31
    ensures { word_of result ≡ word % 2 ^ 31 }
{
    Seq31::ZERO.add(word)
}
