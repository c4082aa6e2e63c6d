//! Laws of the definitions.

ghost use Rattle.std.specs.Prelude.{ℕ, List};
ghost use Rattle.srt_log.specs.Changes.{NothingBetweenEqual};
ghost use Rattle.srt_log.specs.LineShares.{SharedCall, AreOthers, KeepsApart, KeepsShares, CountsEachLine};
ghost use Rattle.srt_log.specs.Repeats.{EachIsToldOrCounted, CountsAreToldOnce};
ghost use Rattle.srt_log.specs.declared.line_limits.LineKind.{LineKind};

/// Two equal snapshots have nothing between them.
pub fn equal_snapshots()
    ensures { NothingBetweenEqual }
{}

/// Each line of a kind is written, or its number was returned among those left out, or it is left out in the latest second: none
/// is left out untold. For up to 2^64 - 1 lines.
pub fn each_line_is_counted()
    ensures { (kind : LineKind) → CountsEachLine kind }
{}

/// A flood of lines of one kind never costs a line of the other kind, whatever the times of the calls are.
pub fn shares_are_apart()
    ensures { (kind : LineKind) (flood calls : List SharedCall) (moment : ℕ) → AreOthers kind flood → KeepsApart kind flood calls moment }
{}

/// Of each kind's lines of a second the first ones are written, as many as its share has; both kinds together have 50 at most.
pub fn most_shared_lines()
    ensures { (calls : List SharedCall) → KeepsShares calls }
{}

/// Each refusal has a line of its own or is counted with its caller's, and each count is told by one line: no refusal is lost. For up to
/// 2^64 - 1 refusals that wait to be told.
pub fn repeats()
    ensures each { EachIsToldOrCounted }
    ensures once { CountsAreToldOnce }
{}
