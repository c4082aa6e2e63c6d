//! Loss lists encoded as words.

ghost use Rattle.std.specs.Prelude.{◌≡◌, ◌^◌, ◌<◌, All, map};
ghost use Rattle.std.specs.List.{flat_map};
ghost use Rattle.srt_types.specs.Words.{word};
ghost use Rattle.srt_types.specs.Runs.{span};
ghost use Rattle.srt_loss.specs.Reading.{losses_in};
ghost use Rattle.srt_loss.specs.Text.{loss_words, range_of};

use arrayvec::ArrayVec;
use srt_types::Seq31;
use srt_types::protocol_limits::{MAX_NAK_RUNS, MAX_NAK_WORDS};

/// Returns the words of at most 32 runs, each a pair of its first and last number, both included. A run of one number
/// is one word. A longer run is two words: its first number with the top bit set, and its last number. There are at
/// most 64 words; in network byte order they are the content of a NAK. Linear in the number of runs.
pub fn write(runs: &ArrayVec<(Seq31, Seq31), MAX_NAK_RUNS>) -> ArrayVec<u32, MAX_NAK_WORDS>
    ensures value { result.items ≡ loss_words (map range_of runs.now.items) }
    // Reading the words in network byte order returns exactly these runs.
    ensures reads_back { All (λ r. span (range_of r) < 2 ^ 30) runs.now.items → losses_in (flat_map word result.items) ≡ Ok (map range_of runs.now.items) }
{
    let mut words = ArrayVec::new();
    for run in runs.as_slice() {
        let (first, last) = *run;
        if first == last {
            words.push(first.get());
        } else {
            words.push(first.get() + (1 << 31));
            words.push(last.get());
        }
    }
    words
}
