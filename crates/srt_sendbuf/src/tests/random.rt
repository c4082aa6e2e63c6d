//! Random operations on the buffer and on the reference implementation, which must agree.

ghost use Rattle.std.specs.Prelude.{◌≤◌};

use crate::tests::plain::{Due, Gone, Plain, Requested};
use crate::{DropRun, Out, SendBuf};
use srt_loss::read;
use srt_samples::Dice;
use srt_types::Seq31;
use std::alloc::{AllocError, Global};
use std::test::Fail;

/// Behaviour of the peer.
#[derive(Clone, Copy, PartialEq, Eq)]
enum Peer {
    Acknowledges,
    /// It sends nothing for a long time, and everything expires.
    Sleeps,
}

/// One stream in both implementations.
#[derive(Drop)]
struct Both {
    alloc: Global,
    dice: Dice,
    peer: Peer,
    width: u32,
    now: u32,
    before: i64,
    ours: SendBuf,
    plain: Plain,
}

fn due_of(out: Out<'_>) -> Option<Due> {
    let byte = *out.payload.first()?;
    Some(Due {
        number: out.number,
        message: u64::from(out.message.get()),
        again: out.again,
        origin: out.origin,
        byte,
    })
}

fn gone_of(run: &DropRun) -> Gone {
    Gone {
        first: run.first,
        last: run.last,
        message: u64::from(run.message.get()),
    }
}

/// Returns the bytes of a loss list of two ranges.
fn bytes_of(one: Requested, two: Requested) -> [u8; 16] {
    let a = (one.first.get() | 1 << 31).to_be_bytes();
    let b = one.last.get().to_be_bytes();
    let c = (two.first.get() | 1 << 31).to_be_bytes();
    let d = two.last.get().to_be_bytes();
    [
        a[0], a[1], a[2], a[3], b[0], b[1], b[2], b[3], c[0], c[1], c[2], c[3], d[0], d[1], d[2],
        d[3],
    ]
}

impl Both {
    fn open(alloc: Global, seed: u64, peer: Peer, width: u32) -> Result<Both, AllocError>
        requires least { 32 ≤ width }
        requires most { width ≤ 8192 }
    {
        Ok(Both {
            alloc,
            dice: Dice::new(seed),
            peer,
            width,
            now: 0,
            before: -8,
            ours: SendBuf::open(alloc, width)?,
            plain: Plain::new(alloc, width, 0),
        })
    }

    /// Starts a stream up to a window before the sequence numbers wrap.
    fn start(&mut self) {
        let initial = 0x7fff_ffffu32.wrapping_sub(self.dice.below(self.width));
        self.plain = Plain::new(self.alloc, self.width, initial);
        self.ours.start(self.plain.wire(0));
    }

    /// Returns a sequence number near those in flight, an expired one, or any other.
    fn number(&mut self) -> Seq31 {
        let plain = &self.plain;
        let flying = (plain.in_flight() & 0xffff) as u32;
        let gone = (plain.front().wrapping_sub(plain.base()) & 0xffff) as u32;
        let past = u64::from(self.dice.below(flying));
        let back = u64::from(self.dice.below(gone));
        let near = u64::from(self.dice.below(4));
        match self.dice.below(12) {
            0 => Seq31::ZERO.add(self.dice.below(1 << 31)),
            1 => self.plain.wire(self.plain.base().wrapping_sub(near)),
            2 => self
                .plain
                .wire(self.plain.next().wrapping_sub(1).wrapping_add(near)),
            3 => self.plain.wire(self.plain.base().wrapping_add(back)),
            4 => self.plain.wire(self.plain.front().wrapping_sub(near)),
            5 => self.plain.wire(self.plain.front().wrapping_add(near)),
            _ => self.plain.wire(self.plain.front().wrapping_add(past)),
        }
    }

    /// Returns a range near the numbers in flight, narrow or wide.
    fn requested(&mut self) -> Requested {
        let first = self.number();
        let few = self.dice.below(5);
        let last = match self.dice.below(8) {
            0 => self
                .plain
                .wire(self.plain.next().wrapping_add(u64::from(few))),
            1 => first.add(few.wrapping_add((1 << 30) - 5)),
            2 => first.add(1 << 29),
            _ => first.add(few),
        };
        Requested { first, last }
    }

    fn queue(&mut self) -> Result<bool, AllocError> {
        self.now = self.now.wrapping_add(self.dice.below(3));
        let byte = (self.dice.below(256) & 0xff) as u8;
        let origin = u64::from(self.now);
        let ours = self.ours.queue(&[byte], origin).is_ok();
        Ok(ours == self.plain.push(origin, byte)?)
    }

    /// Queues a random number of payloads, as long as there is room.
    fn fill(&mut self) -> Result<bool, AllocError> {
        for _ in 0..self.dice.below(self.width) {
            if !self.queue()? {
                return Ok(false);
            }
        }
        Ok(true)
    }

    /// Models a silent peer: many payloads are queued, and none is acknowledged.
    fn sleep(&mut self) -> Result<bool, AllocError> {
        for _ in 0..32 {
            if !self.fill()? || !self.expire() {
                return Ok(false);
            }
        }
        Ok(true)
    }

    fn send(&mut self) -> bool {
        let window = self.dice.below(self.width.wrapping_add(8));
        let ours = match self.ours.next_due(window) {
            Some(out) => due_of(out),
            None => None,
        };
        self.ours.note_sent(window);
        ours == self.plain.next_due(u64::from(window))
    }

    fn send_some(&mut self) -> bool {
        for _ in 0..self.dice.below(12) {
            if !self.send() {
                return false;
            }
        }
        true
    }

    fn ack(&mut self) -> bool {
        let number = self.number();
        if self.ours.grows(number) != self.plain.grows(number) {
            return false;
        }
        if self.peer == Peer::Sleeps && self.dice.below(100) > 0 {
            return true;
        }
        self.ours.ack(number) == self.plain.ack(number)
    }

    /// Expires payloads that were queued before a time; these times never decrease.
    fn expire(&mut self) -> bool {
        let late = match self.peer {
            Peer::Acknowledges => 40,
            Peer::Sleeps => 0,
        };
        let before = i64::from(self.now) - i64::from(late);
        self.before = self.before.max(before);
        u64::from(self.ours.expire(self.before)) == self.plain.expire(self.before)
    }

    fn lose(&mut self) -> bool {
        let one = self.requested();
        let two = self.requested();
        let ours = match read(&bytes_of(one, two)) {
            Ok(losses) => self.ours.lose(&losses),
            // In one of them the last number is 2^30 or more past the first.
            Err(_) => return true,
        };
        let ours = match ours {
            Some(run) => Some(gone_of(&run)),
            None => None,
        };
        ours == self.plain.lose(&[one, two])
    }

    /// Performs one operation. Returns whether both implementations had the same result.
    fn step(&mut self) -> Result<bool, AllocError> {
        match self.dice.below(40) {
            0 if self.dice.below(40) == 0 => {
                self.start();
                Ok(true)
            }
            1 => {
                self.ours.lose_all();
                self.plain.lose_all();
                Ok(true)
            }
            2 | 3 | 4 => Ok(self.expire()),
            5 | 6 | 7 | 8 | 9 => Ok(self.lose()),
            10 | 11 | 12 | 13 => Ok(self.ack()),
            14 if self.peer == Peer::Sleeps => self.sleep(),
            14 | 15 | 16 => self.fill(),
            it if it < 24 => self.queue(),
            it if it < 30 => Ok(self.send()),
            _ => Ok(self.send_some()),
        }
    }

    fn is_same(&self) -> bool {
        u64::from(self.ours.room()) == self.plain.room()
            && u64::from(self.ours.in_flight()) == self.plain.in_flight()
            && self.ours.any_lost() == self.plain.any_lost()
    }

    /// Returns the index of the first step after which the two differ.
    fn difference(&mut self, steps: u32) -> Result<Option<u32>, AllocError> {
        self.start();
        for step in 0..steps {
            if !self.step()? || !self.is_same() {
                return Ok(Some(step));
            }
        }
        Ok(None)
    }
}

#[test]
fn random_operations(rt: HostRuntime) -> Result<(), Fail> {
    for (seed, width, peer) in [
        (1, 32, Peer::Acknowledges),
        (2, 64, Peer::Acknowledges),
        (3, 32, Peer::Sleeps),
        (4, 64, Peer::Sleeps),
        (5, 200, Peer::Acknowledges),
        (6, 200, Peer::Sleeps),
    ] {
        let mut both = Both::open(rt.alloc(), seed, peer, width)?;
        assert_eq!(rt; both.difference(1500)?, None, "seed {seed}");
    }
    Ok(())
}
