//! Random operations on the buffer and on the reference implementation, which must agree.

ghost use Rattle.std.specs.Prelude.{◌≤◌};

use crate::tests::plain::{Plain, wire};
use crate::{Put, RecvBuf};
use srt_samples::Dice;
use srt_types::{PayloadRef, Seq31};
use std::alloc::{AllocError, Global};
use std::test::Fail;

/// The delivery mode of a stream.
#[derive(Clone, Copy, PartialEq, Eq)]
enum Delivery {
    /// Live mode: each packet when it is due.
    Live,
    /// Buffer mode: each packet when no number before it is missing.
    Buffer,
}

/// One stream in both implementations.
#[derive(Drop)]
struct Both {
    alloc: Global,
    dice: Dice,
    delivery: Delivery,
    width: u32,
    now: u32,
    ours: RecvBuf,
    plain: Plain,
}

impl Both {
    fn open(alloc: Global, seed: u64, delivery: Delivery, width: u32) -> Result<Both, AllocError>
        requires least { 32 ≤ width }
        requires most { width ≤ 8192 }
    {
        Ok(Both {
            alloc,
            dice: Dice::new(seed),
            delivery,
            width,
            now: 0,
            ours: RecvBuf::open(alloc, width)?,
            plain: Plain::new(alloc, width, 0),
        })
    }

    /// Starts a stream up to a window before the sequence numbers wrap.
    fn start(&mut self) {
        let initial = 0x7fff_ffffu32.wrapping_sub(self.dice.below(self.width));
        self.ours.start(wire(u64::from(initial)));
        self.plain = Plain::new(self.alloc, self.width, initial);
    }

    /// Returns a sequence number near the window, or any other.
    fn number(&mut self) -> Seq31 {
        let front = self.plain.front();
        let past = u64::from(self.dice.below(self.width));
        let near = u64::from(self.dice.below(4));
        let end = front.wrapping_add(u64::from(self.width));
        match self.dice.below(12) {
            0 => wire(u64::from(self.dice.below(1 << 31))),
            1 => wire(front.wrapping_sub(near)),
            2 => wire(end.wrapping_sub(2).wrapping_add(near)),
            3 => wire(self.plain.ack_point()),
            4 | 5 if self.delivery == Delivery::Buffer => wire(self.plain.ack_point()),
            4 | 5 | 6 => wire(front.wrapping_add(near).wrapping_add(1)),
            _ => wire(front.wrapping_add(past)),
        }
    }

    fn put(&mut self) -> Result<bool, AllocError> {
        let number = self.number();
        let late = i64::from(self.dice.below(24)) - 4;
        let due = match self.delivery {
            Delivery::Live => i64::from(self.now) + late,
            Delivery::Buffer => -1,
        };
        let byte = (self.dice.below(256) & 0xff) as u8;
        let ours = self.ours.put(number, due, PayloadRef { bytes: &[byte] });
        Ok(ours == self.plain.put(number, due, byte)?)
    }

    /// Drops a range of numbers; some ranges are too wide or backward.
    fn dropped(&mut self) -> Result<bool, AllocError> {
        let first = match self.dice.below(3) {
            0 => self.ours.front(),
            _ => self.number(),
        };
        let few = self.dice.below(6);
        let last = match self.dice.below(8) {
            0 => self.number(),
            1 => first.add(1 << 29),
            2 => first.add(few.wrapping_add((1 << 30) - 2)),
            3 => self.ours.top().add(few),
            _ => first.add(few),
        };
        self.ours.dropped(first, last);
        self.plain.drop_range(first, last)?;
        Ok(true)
    }

    fn advance(&mut self) -> bool {
        if self.delivery == Delivery::Buffer && self.plain.ack_point() == self.plain.front() {
            return true;
        }
        let room = self.dice.below(4);
        let byte = match self.ours.next_due(u64::from(self.now), room) {
            Some(payload) => payload.first().copied(),
            None => None,
        };
        let noted = self.ours.note_delivered(u64::from(self.now), room);
        let plain = self.plain.advance(i64::from(self.now), room);
        byte == plain && noted == plain.is_some()
    }

    /// Performs one operation. Returns whether both implementations had the same result.
    fn step(&mut self) -> Result<bool, AllocError> {
        self.now = self.now.wrapping_add(self.dice.below(3));
        match self.dice.below(40) {
            0 if self.dice.below(8) == 0 => {
                self.start();
                Ok(true)
            }
            0 | 1 | 2 | 3 => self.dropped(),
            it if it < 16 => Ok(self.advance()),
            _ => self.put(),
        }
    }

    fn is_same_points(&self) -> bool {
        self.ours.front() == wire(self.plain.front())
            && self.ours.top() == wire(self.plain.top())
            && self.ours.ack_point() == wire(self.plain.ack_point())
            && u64::from(self.ours.available()) == self.plain.available()
            && self.ours.waiting() == self.plain.is_waiting()
            && self.ours.has_gaps() != self.ours.runs(self.ours.front()).is_empty()
    }

    fn is_same_runs(&self, from: Seq31) -> Result<bool, AllocError> {
        let ours = self.ours.runs(from);
        let plain = self.plain.runs(self.alloc, from)?;
        for (ours, plain) in ours.iter().zip(&plain) {
            if ours.0 != wire(plain.0) || ours.1 != wire(plain.1) {
                return Ok(false);
            }
        }
        Ok(ours.len() == plain.len())
    }

    /// Returns the index of the first step after which the two differ.
    fn difference(&mut self, steps: u32) -> Result<Option<u32>, AllocError> {
        self.start();
        for step in 0..steps {
            let from = self.number();
            let same = self.step()?
                && self.is_same_points()
                && self.is_same_runs(self.ours.front())?
                && self.is_same_runs(from)?;
            if !same {
                return Ok(Some(step));
            }
        }
        Ok(None)
    }
}

#[test]
fn random_operations(rt: HostRuntime) -> Result<(), Fail> {
    for (seed, width, delivery) in [
        (1, 32, Delivery::Live),
        (2, 64, Delivery::Live),
        (3, 32, Delivery::Buffer),
        (4, 64, Delivery::Buffer),
    ] {
        let mut both = Both::open(rt.alloc(), seed, delivery, width)?;
        assert_eq!(rt; both.difference(1500)?, None, "seed {seed}");
    }
    Ok(())
}
