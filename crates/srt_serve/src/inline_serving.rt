//! The polling thread as a worker: between its reads and its sends it serves the routes of the datagrams that it has
//! just read, if both are few. What it passes to a route and takes from it then stays in the caches of one processor, and
//! no worker has to be woken.

ghost use Rattle.std.specs.Prelude.{◌≡◌, ◌≢◌, ◌<◌, ◌≤◌, ◌⊎◌, true, false, IfSome, IfNone, Some, None, length};
ghost use Rattle.srt_mailbox.specs.declared.gates.Served.TheVariants.{Turned as TurnedAs, GateRefused};
ghost use Rattle.srt_types.specs.declared.shared.Turned.TheVariants.{Idle};
ghost use Rattle.srt_lobby.specs.Names.{names_of};
ghost use Rattle.srt_serve.specs.Refusals.{refusal_in as refusal_of};
ghost use Rattle.srt_serve.specs.inside.Inline.{serves_itself, AreServed, IsServedInline, ToldOfLobby, ToldOfRoute};
ghost use Rattle.srt_serve.specs.inside.Outcomes.{IsInlineOutcome};

use crate::evidence::{
    HandedOver, NonePolled, PolledRoute, ReadTold, hand_over, return_gate, take_gate, take_polled,
    tell_read,
};
use crate::refusal_reports::{lobby_refusal, refusal_in, route_refusal};
use crate::watcher_channel::PollerChannel;
use crate::working::{Stay, is_left, serve_route};
use srt_lobby::Names;
use srt_mailbox::{Gate, Serve};
use srt_poller::{Hints, InlineService, Orders, PollerObserver, Signals};
use srt_supervision::{Order, Report};
use srt_types::Peer;
use srt_wakeups::RouteMarks;
use srt_wakeups::pacing::{DATAGRAMS_FOR_WORKERS, FEW_ROUTES, POLLER_TURNS};
use std::cell::Cell;
use std::sync::Wait;

// Whether the polling thread serves the routes of this many datagrams itself, if they are for so many routes.
fn serves_itself(datagrams: u32, polled: u64) -> bool
    ensures { result ≡ serves_itself datagrams polled }
{
    datagrams < DATAGRAMS_FOR_WORKERS && polled <= FEW_ROUTES
}

// Reports a conclusion that the lobby, which has these names, refused with this code; or counts it, if there is no place.
fn tell_lobby_refusal<R: Wait, H: PollerChannel>(
    rt: &R,
    channel: &H,
    names: &Names,
    peer: Peer,
    code: u32,
    conclusion: &[u8],
)
    ensures { ToldOfLobby (H.missed channel.now) (H.told channel.now) (names_of names.now) peer conclusion.now code }
{
    match channel.misses() {
        Some(_) => {}
        None => {
            let _ = channel.leave(rt, lobby_refusal(names, peer, code, conclusion));
        }
    }
}

// The same of a conclusion that the route with this index refused.
fn tell_route_refusal<R: Wait, H: PollerChannel>(
    rt: &R,
    channel: &H,
    route: usize,
    peer: Peer,
    code: u32,
)
    ensures { ToldOfRoute (H.missed channel.now) (H.told channel.now) route peer code }
{
    match channel.misses() {
        Some(_) => {}
        None => {
            let _ = channel.leave(rt, route_refusal(route, peer, code));
        }
    }
}

// How the polling thread's own service of a round ended.
#[derive(Drop)]
enum InlineEnd {
    // no route had anything more that it had been offered
    NonePolled(NonePolled),
    // those that it didn't come to were left to the workers
    HandedOver(HandedOver),
}

// What became of the datagrams of a round.
#[derive(Drop)]
enum InlineOutcome {
    // the polling thread served their routes itself
    Served(InlineEnd),
    // they were left to the workers, which were told
    Left(ReadTold),
}

// Serves a route that the polling thread took upon itself, for at most `most` turns, and leaves it.
fn serve_polled<R: Wait, C: Serve, G: Gate, M: RouteMarks>(
    rt: &R,
    polled: PolledRoute<'_, C, M>,
    gate: &mut G,
    most: u32,
) -> Stay
    ensures most { result.visit.turns ≤ most }
    ensures all { result.visit.end ≡ None → result.visit.turns ≡ most }
    ensures idle { result.visit.end ≡ Some (TurnedAs Idle) → result.left.is_left ≡ false }
    ensures held { result.visit.end ≡ Some GateRefused → result.left.is_left ≡ false }
    ensures left { result.visit.end ≢ Some (TurnedAs Idle) → result.visit.end ≢ Some GateRefused → result.left.is_left ≡ true }
    ensures replied { 0 < result.visit.moved → M.replied polled.entry.marks.now polled.entry.route }
    ensures marked { result.left.is_left ≡ true → M.left polled.entry.marks.now polled.entry.route }
    ensures attended { M.attended polled.entry.marks.now polled.entry.route }
{
    let visit = serve_route(rt, polled.cell, polled.route, gate, polled.marks, most);
    Stay {
        visit,
        left: polled.leave(is_left(visit)),
    }
}

/// The poller's hints, and its work for the routes.
#[derive(Drop)]
pub struct InlineServer<'a, R, C, G: Drop, H: PollerChannel> {
    rt: &'a R,
    cells: &'a [C],
    marks: &'a H::Marks,
    // none if the run isn't watched
    channel: Option<&'a H>,
    // none if the workers alone serve routes, and while it is in use
    gate: Cell<Option<G>>,
}

impl<'a, R: Wait, C: Serve, G: Gate + Drop, H: PollerChannel> InlineServer<'a, R, C, G, H> {
    /// For the polling thread alone. Without a gate it serves no route, and without a channel all rounds are made and none
    /// closes all.
    pub fn new(
        rt: &'a R,
        cells: &'a [C],
        marks: &'a H::Marks,
        channel: Option<&'a H>,
        gate: Option<G>,
    ) -> InlineServer<'a, R, C, G, H>
        ensures { result.channel ≡ channel.entry }
    {
        InlineServer {
            rt,
            cells,
            marks,
            channel,
            gate: Cell::new(gate),
        }
    }

    // The watcher's channel and the code of the refusal that this handshake is; none if it isn't a refusal, or if the run
    // isn't watched.
    fn refused(&self, handshake: &[u8]) -> Option<(&'a H, u32)>
        ensures some { IfSome result (λ to. (self.now.channel ≡ Some to.0) × (refusal_of handshake.now ≡ Some to.1)) }
        ensures none { IfNone result ((self.now.channel ≡ None) ⊎ (refusal_of handshake.now ≡ None)) }
    {
        let Some(channel) = self.channel else {
            return None;
        };
        let Some(code) = refusal_in(handshake) else {
            return None;
        };
        Some((channel, code))
    }

    // Serves each route that something was offered to, and leaves to the workers what it doesn't finish.
    fn serve(&self, gate: &mut G) -> InlineEnd
        ensures { AreServed (H.Marks.attended self.now.marks.now) (H.Marks.handed self.now.marks.now) (length self.now.cells.now) }
    {
        let mut left = POLLER_TURNS;
        let mut is_done = true;
        let mut from = 0usize;
        // no route is visited twice
        for _ in 0..self.cells.len() {
            if left == 0 {
                break;
            }
            let polled = match take_polled(self.marks, self.cells, from) {
                Ok(polled) => polled,
                Err(none) => {
                    self.wake_for(is_done);
                    return InlineEnd::NonePolled(none);
                }
            };
            from = polled.route.wrapping_add(1);
            let stay = serve_polled(self.rt, polled, gate, left);
            left = left.saturating_sub(stay.visit.turns);
            is_done &= !stay.left.is_left;
        }
        let handed = hand_over(self.marks);
        self.wake_for(is_done & (left > 0));
        InlineEnd::HandedOver(handed)
    }

    // Wakes a worker that rests, unless all was done.
    fn wake_for(&self, is_done: bool)
        ensures { is_done ≡ false → H.Marks.woken self.now.marks.now }
    {
        if !is_done {
            self.marks.wake_one();
        }
    }

    // Leaves the routes of this many datagrams to the workers.
    fn leave_to_workers(&self, datagrams: u32) -> InlineOutcome
        ensures outcome { IsInlineOutcome datagrams result }
        ensures left { H.Marks.handed self.now.marks.now × H.Marks.notified self.now.marks.now datagrams }
    {
        let handed = hand_over(self.marks);
        InlineOutcome::Left(tell_read(self.marks, datagrams, handed))
    }

    // Serves the routes of this many datagrams through this gate if they are few, or leaves them to the workers.
    fn serve_few(&self, gate: &mut G, datagrams: u32) -> InlineOutcome
        ensures outcome { IsInlineOutcome datagrams result }
        ensures served { IsServedInline (H.Marks.attended self.now.marks.now) (H.Marks.counted self.now.marks.now)
            (H.Marks.handed self.now.marks.now) (H.Marks.notified self.now.marks.now) (length self.now.cells.now) datagrams }
    {
        if serves_itself(datagrams, self.marks.count_offered()) {
            InlineOutcome::Served(self.serve(gate))
        } else {
            self.leave_to_workers(datagrams)
        }
    }

    // Serves the routes of this many datagrams through the gate, if there is one and they are few, or leaves them to the workers.
    fn serve_or_leave(&self, datagrams: u32) -> InlineOutcome
        ensures outcome { IsInlineOutcome datagrams result }
        ensures served { IsServedInline (H.Marks.attended self.now.marks.now) (H.Marks.counted self.now.marks.now)
            (H.Marks.handed self.now.marks.now) (H.Marks.notified self.now.marks.now) (length self.now.cells.now) datagrams }
    {
        match take_gate(&self.gate) {
            Some(taken) => {
                let mut taken = taken;
                let outcome = self.serve_few(&mut taken.gate, datagrams);
                let _ = return_gate(&self.gate, taken);
                outcome
            }
            None => self.leave_to_workers(datagrams),
        }
    }
}

impl<R: Wait, C: Serve, G: Gate + Drop, H: PollerChannel> Orders for InlineServer<'_, R, C, G, H> {
    ghost use Rattle.srt_supervision.specs.Answers.{AllClose, RunEnds};
    ghost use Rattle.srt_supervision.specs.declared.order.Order.TheVariants.{CloseAll, End};

    ghost goes = { λ s. Unit {0} };

    // only the watcher's order closes all, or ends the run
    ghost closes = { λ s. H.answered AllClose };

    ghost stops = { λ s. H.answered RunEnds };

    fn order(&self) -> Order
        ensures closes { result ≡ CloseAll → H.answered AllClose }
        ensures stops { result ≡ End → H.answered RunEnds }
        ensures ordered { IfSome self.now.channel (λ channel. H.ordered channel.now result) }
    {
        match self.channel {
            Some(channel) => channel.order().order,
            None => Order::GoOn,
        }
    }
}

impl<R: Wait, C: Serve, G: Gate + Drop, H: PollerChannel> Hints for InlineServer<'_, R, C, G, H> {
    ghost rests = { λ s route. H.Marks.rests s.marks.now route };

    ghost noticed = { λ s route. H.Marks.offered s.marks.now route };

    fn polled(&self, route: usize) {
        self.marks.mark_offered(route);
    }

    fn take_outbox_ready(&self, route: usize) -> bool {
        self.marks.take_outbox(route)
    }

    fn next_outbox_ready(&self, route: usize) -> usize {
        self.marks.next_outbox(route)
    }
}

impl<R: Wait, C: Serve, G: Gate + Drop, H: PollerChannel> PollerObserver
    for InlineServer<'_, R, C, G, H> {
    fn reported(&self, report: &Report)
        ensures { IfSome self.now.channel (λ channel. H.counted channel.now report.now) }
    {
        if let Some(channel) = self.channel {
            let _ = channel.report(report);
        }
    }

    fn answered(&self, names: &Names, peer: Peer, datagram: &[u8], answer: &[u8])
        ensures { IfSome self.now.channel (λ channel. IfSome (refusal_of answer.now) (λ code.
            ToldOfLobby (H.missed channel.now) (H.told channel.now) (names_of names.now) peer datagram.now code)) }
    {
        if let Some((channel, code)) = self.refused(answer) {
            tell_lobby_refusal(self.rt, channel, names, peer, code, datagram);
        }
    }

    fn replied(&self, route: usize, peer: Peer, handshake: &[u8])
        ensures { IfSome self.now.channel (λ channel. IfSome (refusal_of handshake.now) (λ code.
            ToldOfRoute (H.missed channel.now) (H.told channel.now) route peer code)) }
    {
        if let Some((channel, code)) = self.refused(handshake) {
            tell_route_refusal(self.rt, channel, route, peer, code);
        }
    }

    fn failed(&self)
        ensures { IfSome self.now.channel (λ channel. H.faulted channel.now) }
    {
        if let Some(channel) = self.channel {
            let _ = channel.failed();
        }
    }
}

impl<R: Wait, C: Serve, G: Gate + Drop, H: PollerChannel> InlineService
    for InlineServer<'_, R, C, G, H> {
    ghost served = { λ s datagrams. IsServedInline (H.Marks.attended s.marks.now) (H.Marks.counted s.marks.now) (H.Marks.handed s.marks.now)
        (H.Marks.notified s.marks.now) (length s.cells.now) datagrams };

    fn serve_inline(&self, datagrams: u32) {
        let _ = self.serve_or_leave(datagrams);
    }
}

impl<R: Wait, C: Serve, G: Gate + Drop, H: PollerChannel> Signals
    for InlineServer<'_, R, C, G, H> {}
