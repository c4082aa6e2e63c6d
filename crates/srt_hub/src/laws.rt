//! Theorems about the definitions, for all lists of events, all kinds of route and all lobbies. The contracts of the
//! hub's calls state that each call is the step of the model that these theorems are about.

ghost use Rattle.srt_hub.specs.Laws.{SentIsFront, SentIsWhole, RoutesAreIsolated, GatewaysAreIsolated, OwnStepsDecide, SortingDecides};
ghost use Rattle.srt_hub.specs.Laws.{SortsByOwnName, OwnNameDecides, OthersStay};
ghost use Rattle.srt_lobby.specs.Lobby.{class_of};
ghost use Rattle.srt_hub.specs.Gateways.{ArrivalsAreOwn, StepsAreOwn, SentByOwnSteps, SentByAccepted, SoloIsTheRoutes, SentArePackets};
ghost use Rattle.srt_hub.specs.Gateways.{CallersMayCall};
ghost use Rattle.srt_hub.specs.Refusals.{FullIsAtCapacity, FullTickIsAtCapacity, BlockedIsAtCapacity, IdleIsEmpty, RefusedIsARoutes};
ghost use Rattle.srt_hub.specs.Refusals.{LobbyAnswersAlone, FaultOpensNothing, OpeningIsNext, ClosedIsHidden, FullClosingIsAtCapacity};
ghost use Rattle.srt_hub.specs.Refusals.{AcceptedClosingHides, HiddenStays};

/// No route's traffic changes another's, of whatever kind routes and lobby are. Take any two lists of arrivals, ticks,
/// turns, sends, openings and closings for two gateways with the same secret and the same entry for a route, which may
/// be opened among the events. If the route's inbox accepted the same items in the same order and nothing of it waits,
/// the datagrams sent for it are equal byte for byte, and are those that the route alone replies.
pub fn isolation()
    // If something waits, what was sent is a prefix of what the route alone replies.
    ensures front { SentIsFront }
    ensures whole { SentIsWhole }
    ensures routes { RoutesAreIsolated }
    ensures gateways { GatewaysAreIsolated }
    // The route's own steps determine all of it, also if something waits.
    ensures own_steps { OwnStepsDecide }
    ensures others { OthersStay }
    ensures sorting { SortingDecides }
    ensures own_name { OwnNameDecides }
{}

/// Each refusal is caused by the route's own queues, or by the memory for that one datagram, and changes nothing.
pub fn refusals()
    ensures full { FullIsAtCapacity }
    ensures full_tick { FullTickIsAtCapacity }
    ensures blocked { BlockedIsAtCapacity }
    ensures idle { IdleIsEmpty }
    ensures memory { RefusedIsARoutes }
    ensures lobby { LobbyAnswersAlone }
{}

/// Routes are opened and closed while others run. A refused opening changes nothing, and any other returns the next
/// index, which no route had before. An accepted closing is an item of the route itself, and hides it.
pub fn openings()
    ensures fault { FaultOpensNothing }
    ensures next { OpeningIsNext }
    ensures closed { ClosedIsHidden }
    ensures full { FullClosingIsAtCapacity }
    ensures accepted { AcceptedClosingHides }
    ensures hidden { HiddenStays }
{}

/// The theorems about the gateway with the real lobby and the real routes. Which datagrams are a route's depends on the
/// secret, the route's index and name, its lists and keys, whether it is visible, and each datagram alone; what is sent
/// for a route depends on the route's own events alone. The clause `accepted` is the headline: whatever other routes
/// do, what is sent for a route is what the route alone replies to the items that it accepted.
pub fn gateways()
    ensures arrivals { ArrivalsAreOwn }
    // So the clause of `isolation` about own names holds for the lobby.
    ensures own_name { SortsByOwnName class_of }
    ensures steps { StepsAreOwn }
    ensures own_steps { SentByOwnSteps }
    ensures accepted { SentByAccepted }
    // What the route alone replies is the list that `srt_route::laws::renumbering` is about.
    ensures solo { SoloIsTheRoutes }
    // Every datagram that is sent for a route is the encoding of a packet, and decodes to that packet.
    ensures packets { SentArePackets }
    // Every item that enters a route's inbox is of a caller that the route's lists and keys admit.
    ensures callers { CallersMayCall }
{}
