//! Theorems about the definitions.

ghost use Rattle.srt_route.specs.Acknowledged.{DeliversAll, DeliversInOrder, EndsAtOnce, EndsDrained, FeedsAll, FrontsStay, OneAloneDelivers, PointsStay};
ghost use Rattle.srt_route.specs.Activity.{ActiveGoesOn, OneIsActive, OneDelivers, OpensBehind, StandbyLeads, StaysActive};
ghost use Rattle.srt_route.specs.Bounds.{TwoPublish, NoMoreThanSlots, OneInASlot, NoneElsewhere, OneOfACaller};
ghost use Rattle.srt_route.specs.Closed.{ClosesOnce, ClosedHasNoSession, ClosedIsQuiet};
ghost use Rattle.srt_route.specs.Confirmed.{PayloadsAreConfirmed};
ghost use Rattle.srt_route.specs.Covered.{PayloadsAreCovered};
ghost use Rattle.srt_route.specs.Deadlines.{DeadlinesAreNear};
ghost use Rattle.srt_route.specs.Drafts.{ClocksAreTrusted, NoneDrains, ResendAtEachTimeout};
ghost use Rattle.srt_route.specs.KeyLaws.{RenewalsAreFree};
ghost use Rattle.srt_route.specs.Limits.{FewOfAnAddress, KeepsSlots, NoneIsKeptFromPublishers, PublishersHaveSlots};
ghost use Rattle.srt_route.specs.Queues.{QueuesGoOn};
ghost use Rattle.srt_route.specs.Relabel.{Renumbers, Restamps, Moves};
ghost use Rattle.srt_route.specs.Resends.{ResendsAllOnce, ResendsFew, SilentAreSentNothing};
ghost use Rattle.srt_route.specs.Route.{RepliesHavePlaces};
ghost use Rattle.srt_route.specs.Sendable.{PublishersSendPackets, SubscribersSendPackets, AnswersArePackets, RepliesArePackets, ClearRepliesArePackets};
ghost use Rattle.srt_route.specs.ShiftLaws.{ShiftGoesRound, FourBytesAreTheWord, PacketsShift, LengthsStay, LossesShift, HandshakesShift};
ghost use Rattle.srt_route.specs.ShiftLaws.{ConclusionsShift, PacketsRestamp, CountsStay, StampsStay, PublishersHearTheSame};
ghost use Rattle.srt_route.specs.ShiftLaws.{SubscribersHearTheSame, PublishersSayOthers, SubscribersSayOthers, AnswersSayOthers};
ghost use Rattle.srt_route.specs.ShiftLaws.{ConclusionsHaveFewWords};

use crate::route::Route;

/// A subscriber of a route with a limit on resends is sent few packets again. At every time a hundred times their
/// number is at most 6400, plus the limit times its new packets, plus 100 for each 20 ms since its session opened.
pub fn resends(route: &Route)
    ensures { ResendsFew route.now }
{}

/// On a live route for libsrt callers, a subscriber that sends periodic NAKs is sent everything in flight again without
/// a NAK at most once until an ACK acknowledges more.
pub fn resends_of_all(route: &Route)
    ensures { ResendsAllOnce route.now }
{}

/// On a route for libsrt callers, nothing is sent again without a NAK to a subscriber that was heard last a second ago.
pub fn silent_subscribers()
    ensures { SilentAreSentNothing }
{}

/// In live mode a packet is due within 2^31 microseconds of one delay after its arrival, whatever its caller's packets
/// say, ACKACKs included.
pub fn deadlines()
    ensures { DeadlinesAreNear }
{}

/// An item has at most as many replies as the queue of waiting replies holds.
pub fn replies_have_places()
    ensures { RepliesHavePlaces }
{}

/// Each reply's datagram is the encoding of a packet that can be sent, and decodes to that packet. The same holds for
/// what a publisher's session sends, for what a subscriber's session sends, and for each answer to a handshake.
pub fn replies_are_packets()
    ensures replies { RepliesArePackets }
    ensures clear { ClearRepliesArePackets }
    ensures publishers { PublishersSendPackets }
    ensures subscribers { SubscribersSendPackets }
    ensures answers { AnswersArePackets }
{}

/// Whatever a route's terms are and whatever it receives, at most two of its open sessions publish. No more sessions
/// are open than it has slots, at most one in each slot and none elsewhere. Of each caller at most one session is open
/// that doesn't drain.
pub fn open_sessions()
    ensures publishers { TwoPublish }
    ensures sessions { NoMoreThanSlots }
    ensures slots { OneInASlot }
    ensures elsewhere { NoneElsewhere }
    ensures callers { OneOfACaller }
{}

/// Where a route's callers follow the draft, no session ever drains, whatever its items are: a publisher's own SHUTDOWN
/// ends its session at once.
pub fn draft()
    ensures { NoneDrains }
{}

/// Where a route's callers follow the draft, no publisher's clock is corrected, and subscribers are sent everything in
/// flight again after each timeout.
pub fn draft_sessions()
    ensures clocks { ClocksAreTrusted }
    ensures resends { ResendAtEachTimeout }
{}

/// In buffer mode, whatever a route's items are, no acknowledgement point sent to a publisher in a Full or Light ACK is
/// past its present point (`points`). A publisher delivers the numbers from its front on, one after another; its front
/// moves past the last of them (`order`) and is moved by no packet (`fronts`). So all that it ever delivered are the
/// numbers below its front, in order and each once (`all`). Only the active publisher delivers (`one`), and each
/// subscriber that is open while an event delivers gets all payloads that it delivers, in order (`fed`). On a route for
/// libsrt callers, if the active publisher's session ends by its own SHUTDOWN, at once (`at_once`) or after it drained
/// and not by time (`drained`), each point sent to it is at most its front: every number below the point was received
/// and delivered.
pub fn acknowledged()
    ensures points { PointsStay }
    ensures order { DeliversInOrder }
    ensures fronts { FrontsStay }
    ensures all { DeliversAll }
    ensures one { OneAloneDelivers }
    ensures fed { FeedsAll }
    ensures at_once { EndsAtOnce }
    ensures drained { EndsDrained }
{}

/// A KMREQ that is answered during a session derives no key and makes none: the moments of the limit on derivations and the
/// pool of subscribers' keys stay. The sessions process it as it came (our choice).
pub fn key_renewals()
    ensures { RenewalsAreFree }
{}

/// Where subscribers' sessions are encrypted, no payload is sent in clear, whatever a route's items are: each data packet of its
/// replies is under a key (our choice).
pub fn payloads_are_encrypted()
    ensures { PayloadsAreCovered }
{}

/// Where subscribers' sessions are encrypted, each data packet goes to the peer of an open subscriber's session with keys of its
/// own, under the key that is its payload's, and none before the peer has confirmed that key, whatever a route's items are. So a
/// subscriber that confirms no key is sent no payload (our choice).
pub fn payloads_are_confirmed()
    ensures { PayloadsAreConfirmed }
{}

/// A route keeps its limits, whatever its items are. The free slots and the open publishers are together at least as
/// many as the slots reserved for publishers. So while fewer publishers are open, no publisher is refused because no
/// slot is free, and none ever because the free ones are reserved. No IP address has more open sessions than it may
/// have.
pub fn limits()
    ensures slots { KeepsSlots }
    ensures publishers { PublishersHaveSlots }
    ensures kept { NoneIsKeptFromPublishers }
    ensures addresses { FewOfAnAddress }
{}

/// Whatever a route's items are, exactly one of its open publishers is active, if any is open: after each item, and
/// while an event delivers. As time advances the active one stays active while it is open; a take-over makes the other
/// one active; and a publisher that opens while one is active becomes the standby. So over a whole event the active one
/// stays active while its session is open, if no take-over is due. Whichever is active, a subscriber's queue continues
/// with what the active one delivers, in order: no number is omitted, and none is used again.
pub fn activity()
    ensures one { OneIsActive }
    ensures delivers { OneDelivers }
    ensures stays { StaysActive }
    ensures next { StandbyLeads }
    ensures behind { OpensBehind }
    ensures goes_on { ActiveGoesOn }
    ensures queues { QueuesGoOn }
{}

/// A route with a Close among its items is closed. It has no open session, and whatever arrives later, it replies to
/// nothing and opens no session.
pub fn closed_routes()
    ensures closes { ClosesOnce }
    ensures ended { ClosedHasNoSession }
    ensures quiet { ClosedIsQuiet }
{}

/// The result doesn't depend on the values at which sequence numbers, timestamps and times begin. If all sequence
/// numbers are shifted, modulo 2^31, the replies are the same with their numbers shifted. If all timestamps are
/// shifted, or all times are later, the replies are the same byte for byte.
pub fn renumbering()
    ensures numbers { Renumbers }
    ensures stamps { Restamps }
    ensures moments { Moves }
{}

/// A datagram whose sequence numbers are shifted decodes to the same packet with the shifted numbers, or has the same
/// fault; the same holds for a loss list, a handshake and a conclusion. A datagram with another timestamp decodes to
/// the same packet with that timestamp.
pub fn renumbered_datagrams()
    ensures numbers { ShiftGoesRound }
    ensures words { FourBytesAreTheWord }
    ensures packets { PacketsShift }
    ensures losses { LossesShift }
    ensures handshakes { HandshakesShift }
    ensures conclusions { ConclusionsShift }
    ensures stamps { PacketsRestamp }
    ensures lengths { LengthsStay }
{}

/// A session whose initial sequence number and whose packets are shifted by the same amount keeps the same state, since
/// it counts from its initial number and from its first timestamp.
pub fn renumbered_sessions()
    ensures numbers { CountsStay }
    ensures stamps { StampsStay }
    ensures publishers { PublishersHearTheSame }
    ensures subscribers { SubscribersHearTheSame }
{}

/// If a session's initial sequence number is shifted, its output is the same with all sequence numbers shifted.
pub fn renumbered_output()
    ensures publishers { PublishersSayOthers }
    ensures subscribers { SubscribersSayOthers }
    ensures answers { AnswersSayOthers }
    ensures congestion { ConclusionsHaveFewWords }
{}
