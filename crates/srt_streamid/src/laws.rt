//! Laws of the definitions: reading from left to right agrees with the definition over all parts of a Stream ID at
//! once.

ghost use Rattle.srt_streamid.specs.Laws.{AskIsRead, FaultIsRead, NameIsInside, NameIsSaid};

/// Reading returns what the Stream ID requests, or the fault that it has.
pub fn meanings()
    ensures asks { AskIsRead }
    ensures faults { FaultIsRead }
{}

/// A name that is returned lies within the bytes. It is the value of the only `r` of a list, or the whole text if that
/// is no list.
pub fn names()
    ensures inside { NameIsInside }
    ensures said { NameIsSaid }
{}
