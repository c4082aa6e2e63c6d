//! Facts about the definitions. Each function has an empty body: its contract is the fact.

ghost use Rattle.srt_sub.specs.SessionCalls.{OnePayloadEach, StaysBelow, FrontIsNear};
ghost use Rattle.srt_sub.specs.Emission.{EmissionBegins, StandsLater};
ghost use Rattle.srt_sub.specs.ResendLimit.{KeepsResendLimit};
ghost use Rattle.srt_sub.specs.EventPackets.{SendsAtMost66};
ghost use Rattle.srt_sub.specs.Fresh.{ExpiresOnce};
ghost use Rattle.srt_sub.specs.Held.{HoldsNewOnes, LeavesTheRest};
ghost use Rattle.srt_sub.specs.Tries.{ResendsAllOnce, CountsTries, WaitsLongEnough, IsStillInSilence, ResendsAtEachTimeout};

use crate::Subscriber;

/// At the beginning of an event's end, all its packets are still to be written. A session that represents a record at
/// one time represents it at later times too. Dropping too-late packets a second time in one event, as each call does,
/// changes nothing. An event sends at most 66 packets: one ACKACK, and 65 at its end.
pub fn sessions()
    ensures emission { EmissionBegins }
    ensures later { StandsLater }
    ensures expiry { ExpiresOnce }
    ensures most { SendsAtMost66 }
{}

/// A session with a limit on resends keeps it at all times: a hundred times the packets that it sent again are at most
/// the sum of 6400, the limit times its new packets, and a hundred for each 20 ms since its opening (our choice).
pub fn resends(subscriber: &Subscriber)
    ensures { KeepsResendLimit subscriber.now }
{}

/// When all packets in flight are sent again without a NAK (our choice). By the rule `Once`: only if it wasn't done
/// since an ACK acknowledged more, after the timeout and half the delay. By `BackingOff`: after the timeout, and twice
/// as long each time. By both, not if nothing was received from the caller for a second. By `AtEachTimeout`: after each
/// timeout.
pub fn resends_of_all()
    ensures counted { CountsTries }
    ensures waits { WaitsLongEnough }
    ensures silence { IsStillInSilence }
    ensures each { ResendsAtEachTimeout }
{}

/// By the rule `Once`, a session sends all packets in flight again without a NAK at most once until an ACK acknowledges
/// more (our choice).
pub fn resends_all_once(subscriber: &Subscriber)
    ensures { ResendsAllOnce subscriber.now }
{}

/// A session that is held sends what it sends otherwise, but for new packets beyond the bound. What waits takes room and
/// expires as always, and no ACK acknowledges it (our choice).
pub fn holding()
    ensures sends { HoldsNewOnes }
    ensures rest { LeavesTheRest }
{}

/// Two data packets of a session whose payloads have one index have the same payload, at whatever times they are sent
/// (our choice).
pub fn payloads()
    ensures { OnePayloadEach }
{}

/// A session that is held sends no payload whose index isn't below the bound, neither for the first time nor again (our
/// choice).
pub fn bounds()
    ensures { StaysBelow }
{}

/// All payloads that can still be sent are among the last 8192 that were queued (our choice).
pub fn window()
    ensures { FrontIsNear }
{}
