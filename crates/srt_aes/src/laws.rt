//! Laws of the definitions.

ghost use Rattle.srt_aes.specs.Counter.{CounterModeKeepsLengths, CounterModeIsItsOwnInverse};

/// In counter mode a payload keeps its length, and is decrypted as it was encrypted.
pub fn counter_mode()
    ensures lengths { CounterModeKeepsLengths }
    ensures inverse { CounterModeIsItsOwnInverse }
{}
