//! Laws of the definitions.

ghost use Rattle.srt_lobby.specs.Changing.{AddingKeepsNames, HidingKeepsNames, ShowingKeepsNames, AddingKeepsOthers, HidingKeepsOthers};
ghost use Rattle.srt_lobby.specs.Changing.{ShowingKeepsOthers, HiddenHasNone, DistinctAreUnused, HiddenChangeNothing};
ghost use Rattle.srt_lobby.specs.Laws.{NamesAreDistinct, RouteIsItsOwn, RouteIsNamed, RouteIsShown, RouteHasHeader, AnswerIsPacket};
ghost use Rattle.srt_lobby.specs.Laws.{RouteIsForCallers, RouteIsKeyed};
ghost use Rattle.srt_lobby.specs.Causes.{CauseRefuses, RefusalHasCause};
ghost use Rattle.srt_lobby.specs.Replacing.{ReplacedAsOpened, ReplacingKeepsClasses, ReplacingKeepsOthers, ReplacedDecide, StrangersAreNotHeard};
ghost use Rattle.srt_lobby.specs.Replacing.{ReplacingKeepsNames, ReplacingAndMarkingCommute, LaterReplacementCounts};
ghost use Rattle.srt_lobby.specs.InForce.{LastGivenAreInForce, LastGivenDecide, ClassesAreByNamesInForce};

/// Entries that can be opened have distinct names.
pub fn names()
    ensures distinct { NamesAreDistinct }
{}

/// Whether a datagram is for a route depends only on the secret, the route's index, name, visibility and access rules,
/// and the datagram. The route exists and is visible, and the datagram has a complete header.
pub fn routes()
    ensures own { RouteIsItsOwn }
    ensures named { RouteIsNamed }
    ensures shown { RouteIsShown }
    ensures header { RouteHasHeader }
{}

/// The sender's address of a datagram for a route is in one of the route's lists. With destination 0 the datagram is a
/// conclusion, the address is in the list of the requested role, and the Stream ID has that role's key.
pub fn callers()
    ensures { RouteIsForCallers }
{}

/// A conclusion for a route's secured role has exactly one KMREQ block, with keys of the length that the route requires. One
/// for another role has none.
pub fn keys()
    ensures { RouteIsKeyed }
{}

/// A conclusion with a valid cookie is refused with 1002 if there is a cause. If there is none, and no other reason to
/// refuse it, it is for a route, or refused with 1011 for its keys.
pub fn refusals()
    ensures refuses { CauseRefuses }
    ensures caused { RefusalHasCause }
{}

/// Routes may be added, hidden and made visible. No two visible routes ever have the same name, the other routes keep
/// their datagrams, and a hidden route has none. If no two routes have the same name, visible or hidden, each may be
/// made visible. Hidden routes at the end change the class of no datagram: neither its route, nor its answer, nor its
/// cause.
pub fn changing_names()
    ensures adding { AddingKeepsNames }
    ensures hiding { HidingKeepsNames }
    ensures showing { ShowingKeepsNames }
    ensures adding_keeps { AddingKeepsOthers }
    ensures hiding_keeps { HidingKeepsOthers }
    ensures showing_keeps { ShowingKeepsOthers }
    ensures hidden { HiddenHasNone }
    ensures unused { DistinctAreUnused }
    ensures behind { HiddenChangeNothing }
{}

/// After the lists and keys of a route are replaced, each datagram has the class that it would have if the gateway had
/// been opened with them. Only the class of a datagram that names this route can change, and each other route keeps its
/// datagrams. No datagram of a sender outside of both new lists is for the route. Names stay distinct. A hidden route
/// that is made visible has the new lists and keys, and of two replacements the later one counts.
pub fn replacing_access()
    ensures opened { ReplacedAsOpened }
    ensures classes { ReplacingKeepsClasses }
    ensures others { ReplacingKeepsOthers }
    ensures decide { ReplacedDecide }
    ensures strangers { StrangersAreNotHeard }
    ensures names { ReplacingKeepsNames }
    ensures marks { ReplacingAndMarkingCommute }
    ensures later { LaterReplacementCounts }
{}

/// Whatever changes and datagrams there were, a route has the lists and keys that it was last given, and a datagram is for
/// it only if these admit the sender. A datagram is classified by the names after the changes before it; those after it
/// have no influence.
pub fn names_in_force()
    ensures given { LastGivenAreInForce }
    ensures decide { LastGivenDecide }
    ensures classes { ClassesAreByNamesInForce }
{}

/// Each answer of the lobby is the encoding of a handshake packet.
pub fn answers()
    ensures packet { AnswerIsPacket }
{}
