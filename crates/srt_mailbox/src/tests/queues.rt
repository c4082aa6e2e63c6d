//! Random offers, steps, batches and takes on a route's four ends and on a reference implementation, which must agree
//! at each step: an offer is refused, a step is blocked or idle and a take returns no reply exactly where the queue of
//! the reference is full or empty. A contract states which queue refused, but not at which time.

ghost use Rattle.std.specs.Prelude.{◌<◌, ◌^◌, IfOk};
ghost use Rattle.srt_types.specs.Items.{input_of, moment_of};

use crate::gates::{Served, Visit};
use crate::tests::datagrams::{
    Coming, Expected, publisher_answer, publisher_conclusion, subscriber_answer,
    subscriber_conclusion,
};
use crate::tests::{Fixed, entry, peer};
use crate::{ClockEnd, Drain, Ingress, RouteCell, Serve, open_route};
use srt_samples::Dice;
use srt_types::{Item, Turned};
use std::alloc::{AllocError, Global};
use std::collections::VecDeque;
use std::process::Abort;
use std::sync::Wait;
use std::test::Fail;

/// The reply that a message requests of the route.
#[derive(Clone, Copy, Debug, PartialEq, Eq)]
enum Asks {
    /// The publisher's answer.
    Publisher,
    /// The subscriber's answer.
    Subscriber,
    /// No reply.
    Nothing,
}

/// A route between its queues as the reference implementation: lists, and the replies that wait.
#[derive(Drop)]
struct Plain {
    inbox: VecDeque<Asks>,
    waiting: VecDeque<Asks>,
    outbox: VecDeque<Asks>,
    inbox_places: usize,
    outbox_places: usize,
}

impl Plain {
    fn new(alloc: Global, inbox: u32, outbox: u32) -> Plain {
        Plain {
            inbox: VecDeque::new(alloc),
            waiting: VecDeque::new(alloc),
            outbox: VecDeque::new(alloc),
            inbox_places: inbox as usize,
            outbox_places: outbox as usize,
        }
    }

    fn is_full(&self) -> bool {
        self.inbox.len() >= self.inbox_places
    }

    /// Offers a message. Whether it is accepted.
    fn offer(&mut self, asks: Asks) -> Result<bool, AllocError> {
        if self.is_full() {
            return Ok(false);
        }
        self.inbox.push_back(asks)?;
        Ok(true)
    }

    fn turn(&mut self) -> Result<Turned, AllocError> {
        if !self.waiting.is_empty() {
            if self.outbox.len() >= self.outbox_places {
                return Ok(Turned::Blocked);
            }
            if let Some(asks) = self.waiting.pop_front() {
                self.outbox.push_back(asks)?;
            }
            return Ok(Turned::Moved);
        }
        match self.inbox.pop_front() {
            None => Ok(Turned::Idle),
            Some(Asks::Nothing) => Ok(Turned::Applied),
            Some(asks) => {
                self.waiting.push_back(asks)?;
                Ok(Turned::Applied)
            }
        }
    }

    fn visit(&mut self, most: u32) -> Result<Visit, AllocError> {
        let mut moved = 0u32;
        for turns in 0..most {
            match self.turn()? {
                Turned::Applied => {}
                Turned::Moved => moved = moved.wrapping_add(1),
                turned => {
                    let end = Some(Served::Turned(turned));
                    return Ok(Visit { turns, moved, end });
                }
            }
        }
        Ok(Visit {
            turns: most,
            moved,
            end: None,
        })
    }
}

/// The conclusion of a caller, and the answer to it.
#[derive(Drop)]
struct Caller {
    port: u16,
    head: [u8; 16],
    body: Vec<u8>,
    answer: Vec<u8>,
}

impl Caller {
    fn new(alloc: Global, coming: Coming<'_>, answer: Expected<'_>) -> Result<Caller, Fail> {
        let bytes = coming.sample.bytes(alloc)?;
        if bytes.len() < 16 {
            return Err(Fail::from("a header"));
        }
        let mut head = [0u8; 16];
        head.copy_from_slice(&bytes[..16]);
        Ok(Caller {
            port: coming.port,
            head,
            body: Vec::from_slice(alloc, &bytes[16..])?,
            answer: answer.sample.bytes(alloc)?,
        })
    }

    /// Returns the conclusion, offered at this time in microseconds.
    fn item(&self, alloc: Global, moment: u64) -> Result<Item, AllocError>
        requires { moment < 2 ^ 62 }
        ensures timely { IfOk result (λ item. moment_of (input_of item) < 2 ^ 62) }
    {
        Ok(Item::Datagram {
            peer: peer(self.port),
            moment,
            head: self.head,
            body: Vec::from_slice(alloc, &self.body)?,
        })
    }

    /// Whether this message is the conclusion, offered at this time.
    fn is_item(&self, item: &Item, moment: u64) -> bool {
        match item {
            Item::Datagram {
                peer: from,
                moment: back,
                head,
                body,
            } => {
                *from == peer(self.port)
                    && *back == moment
                    && *head == self.head
                    && body.as_slice() == self.body.as_slice()
            }
            _ => false,
        }
    }
}

/// The two callers.
#[derive(Drop)]
struct Callers {
    publisher: Caller,
    subscriber: Caller,
}

impl Callers {
    fn of(&self, asks: Asks) -> &Caller {
        match asks {
            Asks::Publisher => &self.publisher,
            _ => &self.subscriber,
        }
    }
}

/// One route in both implementations.
#[derive(Drop)]
struct Both {
    alloc: Global,
    dice: Dice,
    callers: Callers,
    ingress: Ingress,
    clock: ClockEnd,
    cell: RouteCell,
    drain: Drain,
    plain: Plain,
}

impl Both {
    fn open(alloc: Global, seed: u64, inbox: u32, outbox: u32) -> Result<Both, Fail> {
        let mut entry = entry(alloc)?;
        entry.inbox = inbox;
        entry.outbox = outbox;
        match open_route(alloc, &entry, 0) {
            Ok((ingress, clock, cell, drain)) => Ok(Both {
                alloc,
                dice: Dice::new(seed),
                callers: Callers {
                    publisher: Caller::new(alloc, publisher_conclusion(), publisher_answer())?,
                    subscriber: Caller::new(alloc, subscriber_conclusion(), subscriber_answer())?,
                },
                ingress,
                clock,
                cell,
                drain,
                plain: Plain::new(alloc, inbox, outbox),
            }),
            Err(_) => Err(Fail::from("the route opens")),
        }
    }

    /// Returns a time before any timer of the route expires, in microseconds.
    fn moment(&mut self) -> u64
        ensures { result < 2 ^ 62 }
    {
        u64::from(self.dice.below(100))
    }

    fn offer_datagram<R: Wait>(&mut self, rt: &R, asks: Asks) -> Result<bool, Fail> {
        let moment = self.moment();
        let caller = self.callers.of(asks);
        let from = peer(caller.port);
        let body = Vec::from_slice(self.alloc, &caller.body)?;
        let went_in = self
            .ingress
            .offer_datagram(rt, from, moment, caller.head, body)
            .is_ok();
        Ok(went_in == self.plain.offer(asks)?)
    }

    /// Offers a conclusion as an `Item`. What is returned must be unchanged.
    fn offer_item<R: Wait>(&mut self, rt: &R, asks: Asks) -> Result<bool, Fail> {
        let moment = self.moment();
        let item = self.callers.of(asks).item(self.alloc, moment)?;
        let is_taken = self.plain.offer(asks)?;
        match self.ingress.offer(rt, item) {
            Ok(()) => Ok(is_taken),
            Err(full) => Ok(!is_taken && self.callers.of(asks).is_item(&full.item, moment)),
        }
    }

    fn offer_tick<R: Wait>(&mut self, rt: &R) -> Result<bool, Fail> {
        let moment = self.moment();
        let is_full = self.clock.is_full().is_some();
        let went_in = self.clock.offer(rt, Item::Tick { moment }).is_ok();
        let is_taken = self.plain.offer(Asks::Nothing)?;
        Ok(went_in == is_taken && is_full != is_taken)
    }

    fn turn<R: Wait>(&mut self, rt: &R) -> Result<bool, Fail> {
        let served = self.cell.serve(rt, &mut Fixed::open());
        Ok(served == Served::Turned(self.plain.turn()?))
    }

    fn visit<R: Wait>(&mut self, rt: &R) -> Result<bool, Fail> {
        let most = match self.dice.below(8) {
            0 => 300,
            _ => self.dice.below(8),
        };
        let visit = self.cell.visit(rt, &mut Fixed::open(), most);
        Ok(visit == self.plain.visit(most)?)
    }

    fn take<R: Wait>(&mut self, rt: &R) -> bool {
        let is_empty = self.drain.is_empty().is_some();
        let arrived = self.drain.take(rt).is_ok();
        match self.plain.outbox.pop_front() {
            None => is_empty && !arrived,
            Some(asks) => !is_empty && arrived && self.is_at_hand(asks),
        }
    }

    /// Whether the reply that was drained last is this caller's answer.
    fn is_at_hand(&self, asks: Asks) -> bool {
        let caller = self.callers.of(asks);
        let reply = self.drain.reply();
        reply.peer == peer(caller.port) && reply.packet.bytes() == caller.answer.as_slice()
    }

    /// The two callers open their sessions.
    fn begin<R: Wait>(&mut self, rt: &R) -> Result<bool, Fail> {
        let mut is_same = self.offer_datagram(rt, Asks::Publisher)?;
        is_same &= self.offer_datagram(rt, Asks::Subscriber)?;
        for _ in 0..4 {
            is_same &= self.turn(rt)?;
        }
        for _ in 0..3 {
            is_same &= self.take(rt);
        }
        Ok(is_same)
    }

    /// Performs one operation. `offers` and `takes` of ten are offers and takes. Returns whether both implementations
    /// had the same result.
    fn step<R: Wait>(&mut self, rt: &R, offers: u32, takes: u32) -> Result<bool, Fail> {
        let what = self.dice.below(10);
        if what < offers {
            return self.offer(rt);
        }
        if what < offers.wrapping_add(takes) {
            return Ok(self.take(rt));
        }
        match self.dice.below(8) {
            0 => self.visit(rt),
            _ => self.turn(rt),
        }
    }

    /// Offers a datagram or a tick to the inbox.
    fn offer<R: Wait>(&mut self, rt: &R) -> Result<bool, Fail> {
        match self.dice.below(4) {
            0 => self.offer_datagram(rt, Asks::Publisher),
            1 => self.offer_datagram(rt, Asks::Subscriber),
            2 => self.offer_item(rt, Asks::Publisher),
            _ => self.offer_tick(rt),
        }
    }

    /// Performs a hundred operations, in which two random numbers define how often each end is used. Returns the
    /// number of operations before both implementations differed.
    fn phase<R: Wait>(&mut self, rt: &R) -> Result<u32, Fail> {
        let offers = self.dice.below(7);
        let takes = self.dice.below(5);
        for at in 0..100u32 {
            if !self.step(rt, offers, takes)? {
                return Ok(at);
            }
        }
        Ok(100)
    }
}

/// Performs 25,000 steps. The frequencies of the ends change every hundred steps, so that both queues become full and
/// empty.
fn assert_same(
    rt: &(impl AllocGlobal + Wait + Abort),
    seed: u64,
    inbox: u32,
    outbox: u32,
) -> Result<(), Fail> {
    let mut both = Both::open(rt.alloc(), seed, inbox, outbox)?;
    assert!(rt; both.begin(rt)?);
    for phase in 0..250u32 {
        let same = both.phase(rt)?;
        assert!(rt; same == 100, "{phase} {same}");
    }
    Ok(())
}

#[test]
fn queues_of_16_places_refuse_only_if_full_or_empty(rt: HostRuntime) -> Result<(), Fail> {
    assert_same(&rt, 1, 16, 16)
}

#[test]
fn queues_of_17_places_refuse_only_if_full_or_empty(rt: HostRuntime) -> Result<(), Fail> {
    assert_same(&rt, 2, 17, 17)
}

#[test]
fn a_wide_inbox_and_a_narrow_outbox_refuse_only_if_full_or_empty(
    rt: HostRuntime,
) -> Result<(), Fail> {
    assert_same(&rt, 3, 61, 16)
}

#[test]
fn a_narrow_inbox_and_a_wide_outbox_refuse_only_if_full_or_empty(
    rt: HostRuntime,
) -> Result<(), Fail> {
    assert_same(&rt, 4, 16, 67)
}
