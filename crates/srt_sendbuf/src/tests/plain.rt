//! The reference implementation: a slow sender over a plain list. Its numbers don't wrap, it keeps everything that was
//! queued, and it computes each result from the whole list.

use srt_types::Seq31;
use std::alloc::{AllocError, Global};

/// Number of sequence numbers before they wrap.
const CIRCLE: u64 = 1 << 31;

/// Maximum distance of an ACK's number before the front, in packets.
const REACH: u64 = 8192;

/// A payload of one byte.
#[derive(Clone, Copy)]
struct Queued {
    origin: u64,
    byte: u8,
    lost: bool,
}

/// A packet to be sent.
#[derive(Clone, Copy, PartialEq, Eq)]
pub(super) struct Due {
    pub number: Seq31,
    pub message: u64,
    pub again: bool,
    pub origin: u64,
    pub byte: u8,
}

/// The contents of a drop request.
#[derive(Clone, Copy, PartialEq, Eq)]
pub(super) struct Gone {
    pub first: Seq31,
    pub last: Seq31,
    pub message: u64,
}

/// The sequence numbers from the first to the last.
#[derive(Clone, Copy)]
pub(super) struct Requested {
    pub first: Seq31,
    pub last: Seq31,
}

/// A sender whose k-th queued payload has the initial number + k.
#[derive(Drop)]
pub(super) struct Plain {
    width: u64,
    initial: u64,
    queue: Vec<Queued>,
    acked: u64,
    expired: u64,
    sent_end: u64,
}

fn distance(from: Seq31, to: Seq31) -> u64 {
    (u64::from(to.get()) + CIRCLE - u64::from(from.get())) % CIRCLE
}

impl Plain {
    pub(super) fn new(alloc: Global, width: u32, initial: u32) -> Plain {
        Plain {
            width: u64::from(width),
            initial: u64::from(initial),
            queue: Vec::new(alloc),
            acked: 0,
            expired: 0,
            sent_end: 0,
        }
    }

    /// Returns the sequence number of the k-th payload.
    pub(super) fn wire(&self, k: u64) -> Seq31 {
        Seq31::ZERO.add((self.initial.wrapping_add(k) % CIRCLE) as u32)
    }

    pub(super) fn front(&self) -> u64 {
        self.acked.max(self.expired)
    }

    pub(super) fn base(&self) -> u64 {
        self.front().saturating_sub(REACH).max(self.acked)
    }

    pub(super) fn next(&self) -> u64 {
        self.front().max(self.sent_end)
    }

    pub(super) fn room(&self) -> u64 {
        let kept = (self.queue.len() as u64).wrapping_sub(self.front());
        self.width.saturating_sub(kept)
    }

    pub(super) fn in_flight(&self) -> u64 {
        self.next().wrapping_sub(self.front())
    }

    fn first_lost(&self) -> Option<u64> {
        for k in self.front()..self.next() {
            if let Some(queued) = self.queue.get(k as usize) {
                if queued.lost {
                    return Some(k);
                }
            }
        }
        None
    }

    pub(super) fn any_lost(&self) -> bool {
        self.first_lost().is_some()
    }

    /// Queues a payload. False if there is no room.
    pub(super) fn push(&mut self, origin: u64, byte: u8) -> Result<bool, AllocError> {
        if self.room() == 0 {
            return Ok(false);
        }
        self.queue.push(Queued {
            origin,
            byte,
            lost: false,
        })?;
        Ok(true)
    }

    /// Returns the number that an ACK acknowledges up to.
    fn acknowledged(&self, number: Seq31) -> Option<u64> {
        for k in self.base()..self.next().wrapping_add(1) {
            if self.wire(k) == number {
                return Some(k);
            }
        }
        None
    }

    pub(super) fn grows(&self, number: Seq31) -> bool {
        match self.acknowledged(number) {
            Some(k) => self.acked < k,
            None => false,
        }
    }

    pub(super) fn ack(&mut self, number: Seq31) -> bool {
        match self.acknowledged(number) {
            Some(k) => {
                self.acked = self.acked.max(k);
                true
            }
            None => false,
        }
    }

    /// Expires payloads that were queued before a time. Returns the number of expired packets.
    pub(super) fn expire(&mut self, before: i64) -> u64 {
        let front = self.front();
        let mut expired = 0u64;
        for queued in &self.queue {
            if before > 0 && queued.origin < before as u64 {
                expired = expired.wrapping_add(1);
            }
        }
        self.expired = expired;
        self.front().wrapping_sub(front)
    }

    fn is_requested(&self, requested: &[Requested], k: u64) -> bool {
        for range in requested {
            if distance(range.first, self.wire(k)) <= distance(range.first, range.last) {
                return true;
            }
        }
        false
    }

    fn mark(&mut self, k: u64, lost: bool) {
        if let Some(queued) = self.queue.get_mut(k as usize) {
            queued.lost = lost;
        }
    }

    pub(super) fn lose(&mut self, requested: &[Requested]) -> Option<Gone> {
        for k in self.front()..self.next() {
            if self.is_requested(requested, k) {
                self.mark(k, true);
            }
        }
        for k in self.base()..self.front() {
            if self.is_requested(requested, k) {
                return Some(Gone {
                    first: self.wire(self.base()),
                    last: self.wire(self.front().wrapping_sub(1)),
                    message: self.base().wrapping_add(1),
                });
            }
        }
        None
    }

    pub(super) fn lose_all(&mut self) {
        for k in self.front()..self.next() {
            self.mark(k, true);
        }
    }

    fn due(&self, k: u64, again: bool) -> Option<Due> {
        let queued = self.queue.get(k as usize)?;
        Some(Due {
            number: self.wire(k),
            message: k.wrapping_add(1),
            again,
            origin: queued.origin,
            byte: queued.byte,
        })
    }

    pub(super) fn next_due(&mut self, window: u64) -> Option<Due> {
        if let Some(k) = self.first_lost() {
            self.mark(k, false);
            return self.due(k, true);
        }
        let k = self.next();
        if self.in_flight() >= window || k >= self.queue.len() as u64 {
            return None;
        }
        self.sent_end = k.wrapping_add(1);
        self.due(k, false)
    }
}
