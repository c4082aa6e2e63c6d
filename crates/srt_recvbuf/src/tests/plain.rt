//! The reference implementation: a slow receiver over plain lists. Its numbers don't wrap, it keeps all arrivals, and
//! it computes each result from the whole list.

use crate::Put;
use srt_types::Seq31;
use std::alloc::{AllocError, Global};

/// Number of sequence numbers before they wrap.
const CIRCLE: u64 = 1 << 31;

/// A packet that arrived, with a payload of one byte.
#[derive(Clone, Copy)]
struct Arrival {
    number: u64,
    due: i64,
    byte: u8,
}

#[derive(Drop)]
pub(super) struct Plain {
    width: u64,
    front: u64,
    arrivals: Vec<Arrival>,
    dropped: Vec<u64>,
}

/// Returns the 31-bit sequence number of a number that doesn't wrap.
pub(super) fn wire(number: u64) -> Seq31 {
    Seq31::ZERO.add((number % CIRCLE) as u32)
}

fn distance(from: u32, to: u32) -> u64 {
    (u64::from(to) % CIRCLE + CIRCLE - u64::from(from) % CIRCLE) % CIRCLE
}

impl Plain {
    pub(super) fn new(alloc: Global, width: u32, initial: u32) -> Plain {
        Plain {
            width: u64::from(width),
            front: u64::from(initial),
            arrivals: Vec::new(alloc),
            dropped: Vec::new(alloc),
        }
    }

    pub(super) fn front(&self) -> u64 {
        self.front
    }

    fn window_end(&self) -> u64 {
        self.front.wrapping_add(self.width)
    }

    fn arrival(&self, number: u64) -> Option<Arrival> {
        for arrival in &self.arrivals {
            if arrival.number == number {
                return Some(*arrival);
            }
        }
        None
    }

    fn is_dropped(&self, number: u64) -> bool {
        for dropped in &self.dropped {
            if *dropped == number {
                return self.arrival(number).is_none();
            }
        }
        false
    }

    fn is_missing(&self, number: u64) -> bool {
        self.arrival(number).is_none() && !self.is_dropped(number)
    }

    fn end(&self) -> u64 {
        let mut end = 0;
        for arrival in &self.arrivals {
            end = arrival.number.wrapping_add(1).max(end);
        }
        end
    }

    pub(super) fn top(&self) -> u64 {
        self.front.max(self.end())
    }

    pub(super) fn is_waiting(&self) -> bool {
        self.front < self.end()
    }

    pub(super) fn ack_point(&self) -> u64 {
        for number in self.front..self.window_end() {
            if self.is_missing(number) {
                return number;
            }
        }
        self.window_end()
    }

    pub(super) fn available(&self) -> u64 {
        self.window_end().wrapping_sub(self.ack_point())
    }

    /// Returns the number from the front on and before an end that has this 31-bit sequence number.
    fn number_before(&self, number: Seq31, end: u64) -> Option<u64> {
        for there in self.front..end {
            if wire(there) == number {
                return Some(there);
            }
        }
        None
    }

    pub(super) fn put(&mut self, number: Seq31, due: i64, byte: u8) -> Result<Put, AllocError> {
        let Some(number) = self.number_before(number, self.window_end()) else {
            return Ok(Put::Outside);
        };
        if self.arrival(number).is_some() {
            return Ok(Put::Repeat);
        }
        self.arrivals.push(Arrival { number, due, byte })?;
        Ok(Put::New)
    }

    pub(super) fn drop_range(&mut self, first: Seq31, last: Seq31) -> Result<(), AllocError> {
        let span = distance(first.get(), last.get());
        if span >= CIRCLE / 2 {
            return Ok(());
        }
        for number in self.front..self.window_end() {
            if distance(first.get(), wire(number).get()) <= span {
                self.dropped.push(number)?;
            }
        }
        self.settle();
        Ok(())
    }

    fn settle(&mut self) {
        for _ in 0..self.width {
            if !self.is_dropped(self.front) {
                return;
            }
            self.front = self.front.wrapping_add(1);
        }
    }

    fn first_waiting(&self) -> Option<Arrival> {
        for number in self.front..self.end() {
            if let Some(arrival) = self.arrival(number) {
                return Some(arrival);
            }
        }
        None
    }

    pub(super) fn advance(&mut self, now: i64, room: u32) -> Option<u8> {
        let first = self.first_waiting()?;
        if room == 0 || first.due > now {
            return None;
        }
        self.front = first.number.wrapping_add(1);
        self.settle();
        Some(first.byte)
    }

    /// Returns all runs of missing numbers from this one on.
    fn all_runs(&self, alloc: Global, from: u64) -> Result<Vec<(u64, u64)>, AllocError> {
        let mut runs = Vec::new(alloc);
        let mut low = None;
        for number in from..self.end().wrapping_add(1) {
            let missing = number < self.end() && self.is_missing(number);
            low = match low {
                None if missing => Some(number),
                Some(first) if !missing => {
                    runs.push((first, number.wrapping_sub(1)))?;
                    None
                }
                other => other,
            };
        }
        Ok(runs)
    }

    /// Returns the runs that a NAK reports from this 31-bit sequence number on.
    pub(super) fn runs(&self, alloc: Global, from: Seq31) -> Result<Vec<(u64, u64)>, AllocError> {
        match self.number_before(from, self.window_end().wrapping_add(1)) {
            Some(from) => {
                let mut runs = self.all_runs(alloc, from)?;
                runs.truncate(32);
                Ok(runs)
            }
            None => Ok(Vec::new(alloc)),
        }
    }
}
