//! The window: a ring of packet states and payloads.

ghost use Rattle.std.specs.Prelude.{◌≡◌, ℕ, ◌+◌, ◌<◌, ◌≤◌, length, IfOk, ◌==◌, true, false, nat_le, nat_lt, ◌&&◌, if◌then◌else◌};
ghost use Rattle.srt_ring.specs.Ring.{width_of as width_in};

use circular_buffer::HeapCircularBuffer;
use srt_ring::PayloadRing;
use srt_types::PayloadRef;
use std::alloc::{AllocError, Global};

/// The state of one sequence number of the window.
#[derive(Clone, Copy, Debug, PartialEq, Eq)]
pub enum NumberState {
    /// Neither received nor dropped.
    Missing,
    /// The sender dropped the number, and no packet with it has arrived (section 3.2.9).
    Dropped,
    /// A packet was received. It is due at `due`, in microseconds.
    Received { due: i64 },
}

/// The states that a search accepts.
#[derive(Clone, Copy, Debug, PartialEq, Eq)]
pub enum Seek {
    /// Missing.
    NothingThere,
    /// Dropped or received.
    SomethingThere,
    /// Received.
    APacket,
    /// Missing or received.
    NotDropped,
}

/// A ring of packet states from the front on, with a payload for each. A *place* is a distance from the front.
#[derive(Drop)]
pub struct Window {
    places: HeapCircularBuffer<NumberState>,
    payloads: PayloadRing,
    ghost full: { length places.items ≡ places.capacity },
    ghost as_many: { width_in payloads ≡ places.capacity },
}

impl Window {
    ghost use Rattle.srt_ring.specs.Ring.{payload_at};
    ghost use Rattle.srt_recvbuf.specs.Cells.{place_at, cell_at, due_of, after_drop, cell_is_received, is_sought, payload_of, width_of};
    ghost use Rattle.srt_recvbuf.specs.Cells.Cell.{Missing, Dropped, Received};

    /// Allocates a window of `width` missing places. The only call that allocates; the error is a failed allocation.
    /// O(width).
    pub fn open(alloc: Global, width: usize) -> Result<Window, AllocError>
        requires some { 0 < width }
        requires narrow { width ≤ 8192 }
        ensures { IfOk result (λ w. (width_of w ≡ width) × ((at : ℕ) → cell_at w at ≡ Missing)) }
    {
        let mut places = HeapCircularBuffer::with_capacity(alloc, width)?;
        for _ in 0..width {
            let _ = places.try_push_back(NumberState::Missing);
        }
        Ok(Window {
            places,
            payloads: PayloadRing::open(alloc, width)?,
        })
    }

    /// Returns the number of places, 1 to 8192.
    pub fn width(&self) -> usize
        ensures value { result ≡ width_of self.now }
        ensures some { 0 < result }
        ensures narrow { result ≤ 8192 }
    {
        self.places.len()
    }

    /// Returns the state of a place; Missing past the last.
    pub fn place(&self, at: usize) -> NumberState
        ensures value { result ≡ place_at self.now at }
    {
        match self.places.get(at) {
            Some(place) => *place,
            None => NumberState::Missing,
        }
    }

    /// Returns the time at which the packet of a place is due, in microseconds. None if no packet is there.
    pub fn due(&self, at: usize) -> Option<i64>
        ensures { result ≡ due_of (cell_at self.now at) }
    {
        match self.place(at) {
            NumberState::Received { due } => Some(due),
            _ => None,
        }
    }

    /// Returns the bytes of a place's payload, at most 1456. They are the packet's if the place has one, and undefined
    /// otherwise.
    pub fn payload(&self, at: usize) -> &[u8]
        requires { at < width_of self.now }
        ensures packet { cell_is_received (cell_at self.now at) ≡ true → result.now ≡ payload_of (cell_at self.now at) }
        ensures bytes { result.now ≡ payload_at self.now.payloads at }
        ensures fits { length result.now ≤ 1456 }
    {
        self.payloads.payload(at)
    }

    /// Moves the first warm buffer to a place, by an exchange, unless one of the two places has a packet. See
    /// `PayloadRing`.
    fn warm_up(&mut self, at: usize)
        requires inside { at < width_of self.old }
        ensures width { width_of self.new ≡ width_of self.old }
        ensures cells { (d : ℕ) → cell_at self.new d ≡ cell_at self.old d }
    {
        if let Some(other) = self.payloads.take_warm() {
            if !self.is(at, Seek::APacket) && !self.is(other, Seek::APacket) {
                self.payloads.exchange(at, other);
            }
        }
    }

    /// Stores a packet at a place and overwrites its previous state. The payload is at most 1456 bytes. One copy.
    pub fn fill(&mut self, at: usize, due: i64, payload: PayloadRef<'_>)
        requires inside { at < width_of self.old }
        ensures width { width_of self.new ≡ width_of self.old }
        ensures cells { (d : ℕ) → cell_at self.new d ≡ (if d == at then Received due payload.entry.bytes.now else cell_at self.old d) }
    {
        self.warm_up(at);
        self.payloads.set(at, payload.bytes);
        self.mark(at, NumberState::Received { due });
    }

    /// Sets the state of a place and leaves its payload as it is.
    fn mark(&mut self, at: usize, place: NumberState)
        requires inside { at < width_of self.old }
        ensures width { width_of self.new ≡ width_of self.old }
        ensures places { (d : ℕ) → place_at self.new d ≡ (if d == at then place else place_at self.old d) }
        ensures payloads { self.new.payloads ≡ self.old.payloads }
    {
        if let Some(there) = self.places.get_mut(at) {
            *there = place;
        }
    }

    /// Marks a place as dropped, unless it has a packet.
    fn drop_at(&mut self, at: usize)
        requires inside { at < width_of self.old }
        ensures width { width_of self.new ≡ width_of self.old }
        ensures cells { (d : ℕ) → cell_at self.new d ≡ (if d == at then after_drop (cell_at self.old d) else cell_at self.old d) }
    {
        if self.is(at, Seek::NothingThere) {
            self.mark(at, NumberState::Dropped);
        }
    }

    /// Moves the states by one: removes the first, and appends a missing one.
    fn slide_states(&mut self)
        ensures width { width_of self.new ≡ width_of self.old }
        ensures places { (d : ℕ) → place_at self.new d ≡ place_at self.old (d + 1) }
        ensures payloads { self.new.payloads ≡ self.old.payloads }
    {
        self.places.push_back(NumberState::Missing);
    }

    /// Moves the front on by one: removes the first place, and appends a missing one. O(1).
    pub fn slide(&mut self)
        ensures width { width_of self.new ≡ width_of self.old }
        ensures cells { (d : ℕ) → cell_at self.new d ≡ cell_at self.old (d + 1) }
    {
        self.slide_states();
        let width = self.payloads.width();
        self.payloads.advance(width);
    }

    /// Moves the front on by `count` places. O(count).
    pub fn slide_by(&mut self, count: usize)
        ensures width { width_of self.new ≡ width_of self.old }
        ensures cells { (d : ℕ) → cell_at self.new d ≡ cell_at self.old (d + count) }
    {
        for _ in 0..count {
            self.slide();
        }
    }

    /// Makes all places missing. O(width).
    pub fn clear(&mut self)
        ensures width { width_of self.new ≡ width_of self.old }
        ensures cells { (d : ℕ) → cell_at self.new d ≡ Missing }
    {
        for at in 0..self.places.len() {
            self.mark(at, NumberState::Missing);
        }
    }

    /// Whether `seek` accepts the state of a place.
    pub fn is(&self, at: usize, seek: Seek) -> bool
        ensures { result ≡ is_sought seek (cell_at self.now at) }
    {
        match self.place(at) {
            NumberState::Missing => match seek {
                Seek::NothingThere | Seek::NotDropped => true,
                _ => false,
            },
            NumberState::Dropped => match seek {
                Seek::SomethingThere => true,
                _ => false,
            },
            NumberState::Received { due: _ } => match seek {
                Seek::NothingThere => false,
                _ => true,
            },
        }
    }

    /// Returns the first place from `from` on and before `end` that `seek` accepts; `end` if there is none. Linear in
    /// the places that it passes.
    pub fn find(&self, seek: Seek, from: usize, end: usize) -> usize
        requires { from ≤ end }
        ensures low { from ≤ result }
        ensures high { result ≤ end }
        ensures before { (d : ℕ) → from ≤ d → d < result → is_sought seek (cell_at self.now d) ≡ false }
        ensures here { result < end → is_sought seek (cell_at self.now result) ≡ true }
    {
        for at in from..end {
            if self.is(at, seek) {
                return at;
            }
        }
        end
    }

    /// Marks the places from `from` on and before `end` as dropped, except those that have a packet.
    pub fn drop_range(&mut self, from: usize, end: usize)
        requires order { from ≤ end }
        requires inside { end ≤ width_of self.old }
        ensures width { width_of self.new ≡ width_of self.old }
        ensures cells { (d : ℕ) → cell_at self.new d ≡ (if nat_le from d && nat_lt d end then after_drop (cell_at self.old d) else cell_at self.old d) }
    {
        for at in from..end {
            self.drop_at(at);
        }
    }
}
