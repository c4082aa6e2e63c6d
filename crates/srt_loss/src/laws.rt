//! Laws of the definitions.

ghost use Rattle.srt_loss.specs.Spelling.{FaultIsRead, SpelledIsRead};
ghost use Rattle.srt_loss.specs.Text.{WrittenIsRead};

/// The function that reads loss lists agrees with the relation that defines their encoding, also on faults.
pub fn spelled()
    ensures ranges { SpelledIsRead }
    ensures fault { FaultIsRead }
{}

/// Reading what is written returns exactly the ranges that were written.
pub fn written()
    ensures is_read { WrittenIsRead }
{}
