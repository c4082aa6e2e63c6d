//! Laws of the definitions, for all runs. The contracts of `run` and `run_until` say that each run is one that these laws are about.

ghost use Rattle.srt_serve.specs.Isolation.{SentIsFront, SentIsWhole, RoutesAreIsolated, SameItemsAreTaken, RunsAreIsolated};
ghost use Rattle.srt_serve.specs.Unchanged.{LobbySortsByOwnName, SortedAlike, MarksAreOwn, OwnScheduleDecides};
ghost use Rattle.srt_serve.specs.Unchanged.{OpenRoutesBeginAlike, AcceptedAreSorted, AsIfNothingHappened, SentAsIfNothingHappened};
ghost use Rattle.srt_serve.specs.Unchanged.{ChangingRunsAreSo, UnchangingRunsAreSo, LeftAsItWas, NothingChanged, NamesAreAlone};
ghost use Rattle.srt_serve.specs.Unchanged.{RefusedChangesNothing, UnansweredStaysOpen, UnansweredIsNotAdded};

use srt_supervision::Answers;

/// No route's traffic changes another's, and no opening or closing does. Take any two runs, with whatever other routes and schedules, in which a route
/// has the same terms and index. If it took the same items in the same order, ticks among them, and all its replies were sent, then the datagrams
/// that were sent for it are equal byte for byte, and are those that the route alone replies.
pub fn isolation()
    // If some replies weren't sent yet, those that were are a prefix of what the route alone replies.
    ensures front { SentIsFront }
    ensures whole { SentIsWhole }
    ensures routes { RoutesAreIsolated }
    // Which items it took follows from those that its inbox accepted, and from which ticks it took where.
    ensures items { SameItemsAreTaken }
    ensures runs { RunsAreIsolated }
{}

/// Which datagrams are sorted to a route depends on nothing that other routes do. Take any two runs in which the source gave the same answers to the
/// same calls, and a route that has the same index, name and callers in both, a name that no other route of either run has. If after the beginning of
/// each round the route is shown in both or hidden in both, the same datagrams are sorted to it, in the same order. That is so if it has the same schedule
/// in both, the same rounds close all, and its inbox accepts Close in the same rounds.
///
/// Which of them its inbox accepts isn't told here: an inbox that is full, or memory that is refused, depends on when workers serve the route.
pub fn sorting()
    // The lobby is a sorting for which this holds.
    ensures lobby { LobbySortsByOwnName }
    ensures alike { SortedAlike }
    ensures marks { MarksAreOwn }
    ensures schedule { OwnScheduleDecides }
    // So it is of a route that closes in no round, if no round closes all.
    ensures open_routes { OpenRoutesBeginAlike }
    // If the inbox turned no datagram away, those that it accepted are those that were sorted to the route.
    ensures accepted { AcceptedAreSorted }
{}

/// A route that nobody asked to close, and whose name no other one has, keeps index, name, terms and schedule whatever routes come and close: so `sorting`
/// and `isolation` hold between such a run and one without changes. An opening that was refused changes nothing.
pub fn unchanged_routes()
    // The contract of `run` says that a run is so.
    ensures unchanging { UnchangingRunsAreSo }
    ensures left { LeftAsItWas }
    ensures kept { NothingChanged }
    ensures alone { NamesAreAlone }
    // The two laws between a run in which others open and close, and one without changes.
    ensures same { AsIfNothingHappened }
    ensures sent { SentAsIfNothingHappened }
    ensures refused { RefusedChangesNothing }
{}

/// A run to which routes may be added is one that `unchanged_routes` is about. A route of which the watcher didn't answer that it closes wasn't requested
/// to close, and none was added of terms of which it didn't answer that a route of them opens.
pub fn answered_changes<A: Answers>()
    // The contract of `run_until` says that a run is so.
    ensures changing { ChangingRunsAreSo A.answered }
    ensures unasked { UnansweredStaysOpen A.answered }
    ensures unopened { UnansweredIsNotAdded A.answered }
{}
