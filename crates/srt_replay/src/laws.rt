//! Laws of the definitions.

ghost use Rattle.srt_replay.specs.Sent.{SentLinesTell, TapesAreIsolated};

/// No route's traffic changes what a replay writes for another. The `sent` lines at a tape's sends of a route are those
/// of the datagrams that were sent for it. Take two tapes, replayed over gateways with the same secret and the same
/// entry for that route. If its inbox accepted the same items and nothing of it waits at the end, these lines are the
/// same, and are those of what the route alone replies.
pub fn tapes()
    ensures lines { SentLinesTell }
    ensures isolated { TapesAreIsolated }
{}
