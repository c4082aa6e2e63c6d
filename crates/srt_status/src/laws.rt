//! Laws of the definitions.

ghost use Rattle.srt_status.specs.Expectations.{TellsAtOnce, TellsEachTenMinutes};

/// A route that is expected to be on air has a line of the log at the first look that finds no active publisher after one that found
/// it. While it has none, no second line comes before ten minutes more are over.
pub fn expectations()
    ensures once { TellsAtOnce }
    ensures rarely { TellsEachTenMinutes }
{}
