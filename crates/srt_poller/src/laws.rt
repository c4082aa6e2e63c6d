//! Laws of the definitions.

ghost use Rattle.srt_poller.specs.Beforehand.{EarlierRoundsAreSame, LobbyIgnoresLater};
ghost use Rattle.srt_poller.specs.Reports.{CountsOnlyGrow};

/// What a poller did in some rounds doesn't depend on what opens and closes in later ones. The same events follow by schedules
/// that say the same in those rounds and something else afterwards, and by those of further routes, hidden behind the others,
/// that open in none of those rounds; and the state after them is the same, with the further names. This holds over each
/// sorting for which names that stand hidden behind the others make no difference, and the lobby's is one.
pub fn earlier_rounds()
    ensures same { EarlierRoundsAreSame }
    ensures lobby { LobbyIgnoresLater }
{}

/// No count that a poller's observer was told is below one that it was told before, and none of the report at the end is below
/// one of those. The observer is told the counts of the events before each round (`pump_under`, `told`).
pub fn counts_only_grow()
    ensures { CountsOnlyGrow }
{}
