//! The steps of a poller's round after its beginning: `resend`, then `listen`, then `drain`.

ghost use Rattle.std.specs.Prelude.{◌≡◌, ℕ, ◌<◌, ◌≤◌, ◌+◌, ◌*◌, ◌^◌, ◌%◌, ◌==◌, ◌||◌, ◌⊎◌, true, false, None, IfSome, IfNone, List, length, slice_index_or};
ghost use Rattle.srt_lobby.specs.Names.{RouteName};
ghost use Rattle.srt_poller.specs.Devices.{Carried, heard, carried};
ghost use Rattle.srt_poller.specs.Devices.{datagram};
ghost use Rattle.srt_poller.specs.History.{Sorting};
ghost use Rattle.srt_poller.specs.Told.{setting_of, IsHandshake, IsToldSend};

use crate::buffers::Buffers;
use crate::context::{Classifier, LookAhead, RoundContext};
use crate::devices::{Polled, Read, Sent, Source, Wire};
use crate::ends::{Ends, Offered};
use crate::latest::Latest;
use crate::report::{
    count_accepted, count_answer, count_dropped, count_fault, count_full, count_refused,
    count_reply,
};
use crate::signals::{Hints, InlineService, PollerObserver, Signals};
use crate::tuning::{READS_PER_ROUND, REPLIES_PER_ROUTE, ROUNDS_PER_FULL_CHECK};
use crate::visits::Visits;
use srt_lobby::{Class, classify};
use srt_mailbox::OutboxEmpty;
use srt_supervision::Report;
use srt_types::Peer;
use srt_types::protocol_limits::{MAX_DATAGRAM, READ_ROOM};
use std::alloc::Global;
use std::sync::Wait;

/// A datagram that was read. Its bytes are in the poller's `datagram`, `len` of them.
#[derive(Clone, Copy)]
pub(crate) struct Incoming {
    /// The sender.
    pub(crate) peer: Peer,
    /// The number of its bytes, 2048 at most.
    pub(crate) len: usize,
    /// When it arrived, in microseconds, below 2^62.
    pub(crate) moment: u64,
    ghost within: { len ≤ 2048 },
    ghost timely: { moment < 2 ^ 62 },
}

/// A reply for which a send returned Later. Its bytes are in the poller's `reply_bytes`, `len` of them.
#[derive(Clone, Copy)]
pub(crate) struct KeptReply {
    /// The index of the route that it is from.
    pub(crate) route: usize,
    /// The receiver.
    pub(crate) peer: Peer,
    /// The number of its bytes, 1472 at most.
    pub(crate) len: usize,
    ghost within: { len ≤ 1472 },
}

/// The outcome of taking a reply from an outbox.
#[derive(Drop)]
pub(crate) enum Drained {
    /// The outbox was empty, by this evidence.
    Empty(OutboxEmpty),
    /// The reply was sent, or the send failed and it is lost.
    Gone,
    /// The send returned Later, and the reply is kept.
    Kept,
}

/// How a round left the outbox of a route.
#[derive(Drop)]
pub(crate) enum Left {
    /// It has no reply by its hint, and the round doesn't check all.
    Resting,
    /// It was found empty, by this evidence.
    Empty(OutboxEmpty),
    /// As many replies were taken as a round takes of a route.
    Many,
    /// A reply is kept.
    Kept,
}

impl Left {
    ghost use Rattle.srt_poller.specs.inside.Visits.{is_kept, is_open};

    /// Whether the drain stopped before the outbox was found empty.
    #[inline(always)]
    pub(crate) fn is_open(&self) -> bool
        ensures { result ≡ is_open self.now }
    {
        match self {
            Left::Many | Left::Kept => true,
            Left::Resting | Left::Empty(_) => false,
        }
    }

    #[inline(always)]
    fn is_kept(&self) -> bool
        ensures { result ≡ is_kept self.now }
    {
        match self {
            Left::Kept => true,
            Left::Resting | Left::Empty(_) | Left::Many => false,
        }
    }
}

/// A poller between the calls of its devices: its buffers, the reply that is kept, and the counts.
#[derive(Drop)]
pub(crate) struct Poller {
    // the last datagram that was read
    datagram: [u8; READ_ROOM],
    // a copy of the kept reply's bytes, if there is one, so that its box can be returned; no other reply is copied
    reply_bytes: [u8; MAX_DATAGRAM],
    kept: Option<KeptReply>,
    // for copies of datagrams
    buffers: Buffers,
    report: Report,
    // a drain stopped before it had found an outbox empty: the next round that drains checks every outbox
    left: bool,
}

// Reports a send that failed.
#[inline(always)]
fn report_failure<G: PollerObserver>(signals: &G, sent: Sent)
    ensures { IsToldSend (G.knows signals.now) sent }
{
    match sent {
        Sent::Failed => signals.failed(),
        Sent::Taken | Sent::Later => {}
    }
}

// Lets the polling thread serve routes, unless the wait of this round failed.
#[inline(always)]
fn serve_inline<G: InlineService>(signals: &G, datagrams: Option<u32>)
    ensures { IfSome datagrams (λ n. G.served signals.now n) }
{
    if let Some(datagrams) = datagrams {
        signals.serve_inline(datagrams);
    }
}

// Reports a reply that is a handshake.
#[inline(always)]
fn report_handshake<G: PollerObserver>(signals: &G, route: usize, peer: Peer, reply: &[u8])
    ensures { IsHandshake reply.now → (G.knows signals.now).handshake route (datagram peer reply.now) }
{
    if let [0x80, 0, 0, 0, ..] = reply {
        signals.replied(route, peer, reply);
    }
}

impl Poller {
    ghost use Rattle.srt_lobby.specs.declared.classes.Class.TheVariants.{Route};
    ghost use Rattle.srt_poller.specs.declared.ends.Ends.{Ends as TheEnds};
    ghost use Rattle.srt_poller.specs.inside.Visits.{IsTaken, IsKeptBy, IsLeft, IsKeptAfter, IsThrough, IsNoted};
    ghost use Rattle.srt_poller.specs.inside.Served.{more_by, IsServed, IsAttended};
    ghost use Rattle.srt_poller.specs.Reports.{nothing, one_more, with_kept};
    ghost use Rattle.srt_poller.specs.Pollers.{setting_in, named_in, arrival_in, kept_in, begun_phase, waiting, sending, listening, Waited, RoundMade};
    ghost use Rattle.srt_poller.specs.Pollers.{WaitFailed, Arrived, Listened, Resent, Replies};

    /// A poller with no reply kept and all counts 0. Doesn't allocate.
    pub(crate) fn new(alloc: Global) -> Poller
        ensures kept { result.kept ≡ None }
        ensures report { result.report ≡ nothing }
        ensures left { result.left ≡ false }
    {
        Poller {
            datagram: [0; READ_ROOM],
            reply_bytes: [0; MAX_DATAGRAM],
            kept: None,
            buffers: Buffers::new(alloc),
            report: Report::NOTHING,
            left: false,
        }
    }

    /// Whether the round with this number checks all outboxes, whatever their hints are.
    pub(crate) fn checks_all(&self, round: u64) -> bool
        ensures { result ≡ (self.now.left || (round % 64 == 0)) }
    {
        self.left | (round % ROUNDS_PER_FULL_CHECK == 0)
    }

    /// Reports the counts so far, without a reply that is kept.
    #[inline(always)]
    pub(crate) fn report_counts<G: PollerObserver>(&self, signals: &G)
        ensures { (G.knows signals.now).counts self.now.report }
    {
        signals.reported(&self.report);
    }

    /// Sends the kept reply again, if there is one.
    #[inline(always)]
    pub(crate) fn resend<W: Wire, G: PollerObserver>(&mut self, signals: &G, wire: &mut W)
        ensures went { (ends : List TheEnds) →
            Resent (G.knows signals.now) (begun_phase self.old) (sending (carried (W.handed wire.old) (W.attempts wire.old)) ends self.old)
            (sending (carried (W.handed wire.new) (W.attempts wire.new)) ends self.new) }
        ensures read { self.new.report.read ≡ self.old.report.read }
        ensures left { self.new.left ≡ self.old.left }
    {
        let Some(kept) = self.kept else {
            return;
        };
        let sent = wire.send(kept.peer, &self.reply_bytes[..kept.len]);
        report_failure(signals, sent);
        count_reply(&mut self.report, sent);
        match sent {
            Sent::Later => {}
            Sent::Taken | Sent::Failed => self.kept = None,
        }
    }

    /// Waits for datagrams. False if the wait failed.
    #[inline(always)]
    fn wait<S: Source, G: PollerObserver>(&mut self, signals: &G, source: &mut S) -> bool
        ensures ready { result ≡ true →
            Waited (G.knows signals.now) (waiting (heard (S.gave source.old) (S.calls source.old)) self.old)
            (waiting (heard (S.gave source.new) (S.calls source.new)) self.new) }
        ensures failed { result ≡ false →
            WaitFailed (G.knows signals.now) (waiting (heard (S.gave source.old) (S.calls source.old)) self.old)
            (waiting (heard (S.gave source.new) (S.calls source.new)) self.new) }
        ensures reported { result ≡ false → (G.knows signals.now).fault }
        ensures read { self.new.report.read ≡ self.old.report.read }
        ensures left { self.new.left ≡ self.old.left }
    {
        match source.wait() {
            Polled::Ready => true,
            Polled::Failed => {
                signals.failed();
                count_fault(&mut self.report);
                false
            }
        }
    }

    /// Offers a datagram to its route, and counts the outcome.
    #[inline(always)]
    fn offer<R: Wait, G: Signals>(
        &mut self,
        context: &RoundContext<R, G>,
        ends: &mut [Ends],
        route: usize,
        incoming: Incoming,
    )
        requires header { 16 ≤ incoming.len }
        requires route { route < length ends.old }
        ensures noticed { (e : TheEnds) →
            ((slice_index_or ends.new route e).ingress ≡ (slice_index_or ends.old route e).ingress) ⊎ G.noticed context.now.signals.now route }
        ensures went { (class : Sorting) (names : List RouteName) (wire : Carried) → let arrival = arrival_in incoming self.old in
            class names arrival.datagram arrival.moment ≡ Route route →
            Arrived (setting_of class (G.knows context.now.signals.now)) names arrival (sending wire ends.old self.old) (sending wire ends.new self.new) }
        ensures read { self.new.report.read ≡ one_more self.old.report.read }
        ensures left { self.new.left ≡ self.old.left }
    {
        let bytes = &self.datagram[..incoming.len];
        let Incoming { peer, moment, .. } = incoming;
        match ends[route].offer(context, &mut self.buffers, peer, bytes, moment) {
            Offered::Accepted => {
                count_accepted(&mut self.report);
                context.signals.polled(route);
            }
            Offered::Full(_) => count_full(&mut self.report),
            Offered::Refused(refused) => count_refused(&mut self.report, refused),
        }
    }

    /// Answers, offers or drops a datagram, as the lobby decides. An answer for which the send returns Later is lost.
    #[inline(always)]
    fn arrive<R: Wait, W: Wire, G: Signals>(
        &mut self,
        context: &RoundContext<R, G>,
        wire: &mut W,
        ends: &mut [Ends],
        incoming: Incoming,
    )
        requires { length ends.old ≡ length (named_in context.now.lobby) }
        ensures went { Arrived (setting_in context.now.lobby (G.knows context.now.signals.now)) (named_in context.now.lobby) (arrival_in incoming self.old)
            (sending (carried (W.handed wire.old) (W.attempts wire.old)) ends.old self.old)
            (sending (carried (W.handed wire.new) (W.attempts wire.new)) ends.new self.new) }
        ensures read { self.new.report.read ≡ one_more self.old.report.read }
        ensures left { self.new.left ≡ self.old.left }
    {
        let Classifier { secret, names } = context.lobby;
        let bytes = &self.datagram[..incoming.len];
        match classify(secret, names, incoming.peer, bytes, incoming.moment) {
            Class::Answer(answer) => {
                let sent = wire.send(incoming.peer, &answer);
                context
                    .signals
                    .answered(names, incoming.peer, bytes, &answer);
                report_failure(context.signals, sent);
                count_answer(&mut self.report, sent);
            }
            Class::Dropped(cause) => count_dropped(&mut self.report, cause),
            Class::Route(route) => self.offer(context, ends, route, incoming),
        }
    }

    /// Waits, and reads at most 256 datagrams unless the wait failed. A read that finds none or fails is the last one.
    /// `latest` gets the timestamp of each datagram. Returns their number; `None` if the wait failed.
    #[inline(always)]
    pub(crate) fn listen<R: Wait, S: Source, W: Wire, G: Signals>(
        &mut self,
        context: &RoundContext<R, G>,
        source: &mut S,
        wire: &mut W,
        ends: &mut [Ends],
        latest: &mut Latest,
    ) -> Option<u32>
        requires { length ends.old ≡ length (named_in context.now.lobby) }
        ensures went { Listened (setting_in context.now.lobby (G.knows context.now.signals.now)) (named_in context.now.lobby) 257
            (listening (heard (S.gave source.old) (S.calls source.old)) (carried (W.handed wire.old) (W.attempts wire.old)) ends.old self.old)
            (listening (heard (S.gave source.new) (S.calls source.new)) (carried (W.handed wire.new) (W.attempts wire.new)) ends.new self.new)
            latest.old.moment latest.new.moment }
        ensures number { IfSome result (λ n. (n ≤ 256) × (self.new.report.read ≡ more_by n self.old.report.read)) }
        ensures failed { IfNone result ((self.new.report.read ≡ self.old.report.read) × (G.knows context.now.signals.now).fault) }
        ensures left { self.new.left ≡ self.old.left }
    {
        if !self.wait(context.signals, source) {
            return None;
        }
        for reads in 0..READS_PER_ROUND {
            match source.next(&mut self.datagram) {
                Read::Datagram(peer, len, moment) => {
                    let incoming = Incoming { peer, len, moment };
                    self.arrive(context, wire, ends, incoming);
                    latest.see(moment);
                }
                Read::Empty => return Some(reads),
                Read::Failed => {
                    context.signals.failed();
                    count_fault(&mut self.report);
                    return Some(reads);
                }
            }
        }
        Some(READS_PER_ROUND)
    }

    /// Takes a reply from an outbox and sends it. No reply may be kept.
    #[inline(always)]
    fn drain_one<R: Wait, W: Wire, G: Signals>(
        &mut self,
        context: &RoundContext<R, G>,
        wire: &mut W,
        ends: &mut [Ends],
        route: usize,
    ) -> Drained
        requires route { route < length ends.old }
        requires kept { self.old.kept ≡ None }
        ensures went { (sends : ℕ) → sends < 64 → Replies (G.knows context.now.signals.now) route sends route (sends + 1) 1
            (sending (carried (W.handed wire.old) (W.attempts wire.old)) ends.old self.old)
            (sending (carried (W.handed wire.new) (W.attempts wire.new)) ends.new self.new) }
        ensures kept { IsKeptBy result self.new.kept }
        ensures taken { (e : TheEnds) → IsTaken result (slice_index_or ends.old route e).drain (slice_index_or ends.new route e).drain }
        ensures read { self.new.report.read ≡ self.old.report.read }
    {
        let end = &mut ends[route];
        match end.drain.take(context.rt) {
            Ok(()) => {}
            Err(empty) => return Drained::Empty(empty),
        }
        self.buffers.keep(end.drain.take_buffer());
        let reply = end.drain.reply();
        let peer = reply.peer;
        let bytes = reply.packet.bytes();
        let sent = wire.send(peer, bytes);
        report_handshake(context.signals, route, peer, bytes);
        report_failure(context.signals, sent);
        count_reply(&mut self.report, sent);
        match sent {
            Sent::Taken | Sent::Failed => Drained::Gone,
            Sent::Later => {
                let len = reply.packet.copy_to(&mut self.reply_bytes);
                self.kept = Some(KeptReply { route, peer, len });
                Drained::Kept
            }
        }
    }

    /// Sends at most 64 replies of a route, until one is kept, unless its outbox has none by its hint and the round doesn't
    /// check `all`. Returns how its outbox was left.
    #[inline(always)]
    pub(crate) fn drain_route<R: Wait, W: Wire, G: Signals>(
        &mut self,
        context: &RoundContext<R, G>,
        wire: &mut W,
        ends: &mut [Ends],
        route: usize,
        all: bool,
    ) -> Left
        requires route { route < length ends.old }
        requires kept { self.old.kept ≡ None }
        ensures went { Replies (G.knows context.now.signals.now) route 0 route 64 64
            (sending (carried (W.handed wire.old) (W.attempts wire.old)) ends.old self.old)
            (sending (carried (W.handed wire.new) (W.attempts wire.new)) ends.new self.new) }
        ensures kept { IsKeptAfter result self.new.kept }
        ensures left { (e : TheEnds) → IsLeft all (G.rests context.now.signals.now route) result
            (slice_index_or ends.old route e).drain (slice_index_or ends.new route e).drain }
        ensures read { self.new.report.read ≡ self.old.report.read }
    {
        if !context.signals.take_outbox_ready(route) && !all {
            return Left::Resting;
        }
        for _ in 0..REPLIES_PER_ROUTE {
            match self.drain_one(context, wire, ends, route) {
                Drained::Gone => {}
                Drained::Empty(empty) => return Left::Empty(empty),
                Drained::Kept => return Left::Kept,
            }
        }
        Left::Many
    }

    /// Reads the outboxes of all routes with a hint. Those of many routes are mostly out of the caches, and here the
    /// processor fetches several at the same time, before the drain uses them.
    fn prefetch<G: Hints>(ahead: &LookAhead<G>, ends: &mut [Ends])
        ensures { ends.new ≡ ends.old }
    {
        if ends.len() < 2 {
            return;
        }
        let mut route = 0;
        while route < ends.len() {
            let at = ahead.next_hinted(route);
            if at >= ends.len() {
                return;
            }
            let _ = ends[at].drain.is_empty();
            route = at + 1;
        }
    }

    /// Sends replies of all routes, in the order of their indexes, until one is kept; none may be kept before. The outboxes of
    /// routes without a hint are passed over unless the round checks `all`. Returns the routes that were visited.
    #[inline(always)]
    fn drain_all<R: Wait, W: Wire, G: Signals>(
        &mut self,
        context: &RoundContext<R, G>,
        wire: &mut W,
        ends: &mut [Ends],
        all: bool,
    ) -> Visits
        requires { self.old.kept ≡ None }
        ensures went { Replies (G.knows context.now.signals.now) 0 0 (length ends.old) 0 (64 * length ends.old)
            (sending (carried (W.handed wire.old) (W.attempts wire.old)) ends.old self.old)
            (sending (carried (W.handed wire.new) (W.attempts wire.new)) ends.new self.new) }
        ensures visited { self.new.kept ≡ None → length ends.old ≤ result.next }
        ensures through { IsThrough (length ends.old) result }
        ensures all { result.all ≡ all }
        ensures read { self.new.report.read ≡ self.old.report.read }
    {
        Poller::prefetch(&context.look_ahead(), ends);
        let mut visits = Visits::new(all);
        let mut route = 0;
        while route < ends.len() {
            let at = visits.pass(context);
            if at >= ends.len() {
                return visits;
            }
            let left = visits.drain_next(self, context, wire, ends);
            if left.is_kept() {
                return visits;
            }
            route = at + 1;
        }
        visits
    }

    /// Sends replies of all routes, unless one is kept, and notes whether an outbox was left before it was found empty: the
    /// next round then checks all of them, as each 64th does. Returns the routes whose outboxes were drained, or passed over
    /// by their hints: all, unless a reply is kept. The polling thread has served routes before, or the wait failed, so that
    /// the replies to what was read leave in the same round.
    #[inline(always)]
    pub(crate) fn drain<R: Wait, W: Wire, G: Signals>(
        &mut self,
        context: &RoundContext<R, G>,
        wire: &mut W,
        ends: &mut [Ends],
    ) -> Visits
        requires { IsAttended (G.served context.now.signals.now) (G.knows context.now.signals.now).fault }
        ensures went { Replies (G.knows context.now.signals.now) 0 0 (length ends.old) 0 (64 * length ends.old)
            (sending (carried (W.handed wire.old) (W.attempts wire.old)) ends.old self.old)
            (sending (carried (W.handed wire.new) (W.attempts wire.new)) ends.new self.new) }
        ensures visited { self.new.kept ≡ None → length ends.old ≤ result.next }
        ensures checked { result.all ≡ (self.old.left || (context.now.round % 64 == 0)) }
        ensures left { IsNoted (length ends.old) self.old.left self.new.kept result self.new.left }
        ensures read { self.new.report.read ≡ self.old.report.read }
    {
        let all = self.checks_all(context.round);
        if self.kept.is_some() {
            return Visits::new(all);
        }
        let visits = self.drain_all(context, wire, ends, all);
        self.left = visits.is_left();
        visits
    }

    /// Makes the rest of a round, which has begun: sends the kept reply again, waits and reads, lets the polling thread
    /// serve routes, and sends replies. Returns the routes whose outboxes were drained or passed over (`drain`).
    #[inline(always)]
    pub(crate) fn make_round<R: Wait, S: Source, W: Wire, G: Signals>(
        &mut self,
        context: &RoundContext<R, G>,
        source: &mut S,
        wire: &mut W,
        ends: &mut [Ends],
        latest: &mut Latest,
    ) -> Visits
        requires { length ends.old ≡ length (named_in context.now.lobby) }
        ensures made { RoundMade (setting_in context.now.lobby (G.knows context.now.signals.now)) (named_in context.now.lobby)
            (length ends.old) (begun_phase self.old)
            (listening (heard (S.gave source.old) (S.calls source.old)) (carried (W.handed wire.old) (W.attempts wire.old)) ends.old self.old)
            (listening (heard (S.gave source.new) (S.calls source.new)) (carried (W.handed wire.new) (W.attempts wire.new)) ends.new self.new)
            latest.old.moment latest.new.moment }
        ensures visited { self.new.kept ≡ None → length ends.old ≤ result.next }
        ensures checked { result.all ≡ (self.old.left || (context.now.round % 64 == 0)) }
        ensures left { IsNoted (length ends.old) self.old.left self.new.kept result self.new.left }
        ensures served { IsServed (G.served context.now.signals.now) (G.knows context.now.signals.now).fault self.old.report.read self.new.report.read }
    {
        self.resend(context.signals, wire);
        serve_inline(
            context.signals,
            self.listen(context, source, wire, ends, latest),
        );
        self.drain(context, wire, ends)
    }

    /// Returns the counts so far, in which a reply that is still kept counts as lost.
    pub(crate) fn report(&self) -> Report
        ensures { result ≡ with_kept self.now.report (kept_in self.now) }
    {
        let mut report = self.report;
        if self.kept.is_some() {
            report.lost = report.lost.saturating_add(1);
        }
        report
    }
}
