//! Laws of the definitions: a session may count its numbers and times from its own start.

ghost use Rattle.srt_types.specs.Window.{InWindowIsTheNumber, NumbersFromInitial};
ghost use Rattle.srt_types.specs.Runs.{RangesFromInitial};
ghost use Rattle.srt_types.specs.Lift.{LiftIsTheTime, LiftMoves, TimesFromFirst};

/// A word is the word of at most one number of a window. A session may count from its initial number: each number of a
/// window is the initial number plus a number counted from it.
pub fn windows()
    ensures number { InWindowIsTheNumber }
    ensures from_initial { NumbersFromInitial }
{}

/// A range contains the same numbers, whether they are counted from a session's initial number or from 0.
pub fn ranges()
    ensures from_initial { RangesFromInitial }
{}

/// Near a given time, a timestamp denotes exactly one time. A shifted timestamp lifts to a time that is shifted by the
/// same amount, so a session may count from its first timestamp.
pub fn lifts()
    ensures time { LiftIsTheTime }
    ensures moves { LiftMoves }
    ensures from_first { TimesFromFirst }
{}
