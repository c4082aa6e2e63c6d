//! The receiver buffer: reception, drops, and the acknowledgement point. What is delivered, and which numbers are given
//! up for it, is in `delivery.rt`; missing numbers are in `nak_runs.rt`.

ghost use Rattle.std.specs.Prelude.{◌≡◌, ◌≢◌, ℕ, ◌+◌, ◌-◌, ◌^◌, ◌<◌, ◌≤◌, ◌+ℤ◌, Option, None, Some, IfOk, IfSome, is_some, option_copied};
ghost use Rattle.std.specs.Prelude.{length, max, true, false, nat_le, nat_lt, ◌&&◌};
ghost use Rattle.srt_types.specs.Window.{word_of, counted_from, in_window, offset_of, number_word};
ghost use Rattle.srt_recvbuf.specs.Cells.{width_of, cell_at, cell_is_missing, cell_is_received};

use crate::window::{NumberState, Seek, Window};
use srt_types::protocol_limits::RANGE_END;
use srt_types::{PayloadRef, Seq31};
use std::alloc::{AllocError, Global};

/// Result of `RecvBuf::put`: what was done with a data packet (section 3.1).
#[derive(Clone, Copy, Debug, PartialEq, Eq)]
pub enum Put {
    /// The first copy of its number; it was stored.
    New,
    /// The packet of this number is already stored; nothing changed.
    Repeat,
    /// Its number isn't in the window, which is the `width` numbers from the front on; nothing changed. This includes
    /// delivered numbers.
    Outside,
}

/// The packets of one stream that are received and not yet delivered: a window of 32 to 8192 sequence numbers from
/// the front on, each of which is received, dropped by the sender, or missing.
///
/// `end`, `point` and `next` are kept incrementally, so a stream with few losses costs O(1) a packet at any width. The
/// worst case of `put` and `note_delivered` is linear in the places that they search; their comments state the bounds.
/// `start` is linear in the width. Times are microseconds of one clock of the caller's choice, the same for `put` and
/// `next_due`.
#[derive(Drop)]
pub struct RecvBuf {
    pub(crate) front: Seq31,
    pub(crate) window: Window,
    /// Number of places from the front to the highest received number, inclusive; 0 if nothing received is left.
    pub(crate) end: usize,
    /// Number of places from the front on before the first missing one.
    pub(crate) point: usize,
    /// The place of the first packet after the front's place; `end` or more if there is none.
    pub(crate) next: usize,
    ghost end_inside: { end ≤ width_of window },
    ghost point_inside: { point ≤ width_of window },
    ghost nothing_past_end: { (d : ℕ) → end ≤ d → cell_is_received (cell_at window d) ≡ false },
    ghost nothing_between: { (d : ℕ) → 0 < d → d < next → cell_is_received (cell_at window d) ≡ false },
    ghost packet_at_next: { next < end → cell_is_received (cell_at window next) ≡ true },
}

impl RecvBuf {
    ghost use Rattle.srt_recvbuf.specs.Stands.{IsNextDue, StandsFor, places_of, own_range};
    ghost use Rattle.srt_recvbuf.specs.Changes.{Becomes, BecomesAt, HoldsOf, HoldsOfAt, Stores, payload_in};
    ghost use Rattle.srt_recvbuf.specs.Receiving.{nothing_yet, put_of, requested, settled, moved_to, top, ack_point, available, is_waiting};
    ghost use Rattle.srt_recvbuf.specs.Receiving.{next_due, after_next};

    /// Allocates an empty buffer of `width` packets, 32 to 8192, for a stream with the initial number 0; `start`
    /// begins any other. The only call that allocates; the error is a failed allocation. O(width).
    pub fn open(alloc: Global, width: u32) -> Result<RecvBuf, AllocError>
        requires least { 32 ≤ width }
        requires most { width ≤ 8192 }
        ensures { IfOk result (λ b. (origin : ℕ) → StandsFor width 0 origin b nothing_yet) }
    {
        Ok(RecvBuf {
            front: Seq31::ZERO,
            window: Window::open(alloc, width as usize)?,
            end: 0,
            point: 0,
            next: 1,
        })
    }

    /// Discards everything and starts a stream whose first sequence number is `initial`. O(width).
    pub fn start(&mut self, initial: Seq31)
        ensures stands { (origin : ℕ) → StandsFor (places_of self.old) (word_of initial) origin self.new nothing_yet }
        ensures narrow { places_of self.old ≤ 8192 }
    {
        self.front = initial;
        self.window.clear();
        self.end = 0;
        self.point = 0;
        self.next = 1;
    }

    /// Stores a data packet that is due at `due`, in microseconds; it may be in the past, or negative. The payload is
    /// at most 1456 bytes and is copied once. A number that was dropped and arrives later is received all the same.
    /// O(1), except for a packet that fills the first gap: linear in the distance to the next missing number.
    pub fn put(&mut self, number: Seq31, due: i64, payload: PayloadRef<'_>) -> Put
        ensures stands { Stores (word_of number) due payload.entry.bytes.now self.old self.new }
        ensures answer { HoldsOf self.old (λ width initial r. result ≡ put_of (in_window (counted_from initial (word_of number)) r.front width) r) }
    {
        let Some(offset) = number.offset_in(self.front, self.window.width() as u32) else {
            return Put::Outside;
        };
        let at = offset as usize;
        if self.window.is(at, Seek::APacket) {
            return Put::Repeat;
        }
        self.next = self.next_with(at);
        self.window.fill(at, due, payload);
        self.end = self.end.max(at + 1);
        self.find_point();
        Put::New
    }

    /// Moves the acknowledgement point on to the next missing number.
    fn find_point(&mut self)
        ensures window { self.new.window ≡ self.old.window }
        ensures front { self.new.front ≡ self.old.front }
        ensures end { self.new.end ≡ self.old.end }
        ensures low { self.old.point ≤ self.new.point }
        ensures not_missing { (d : ℕ) → self.old.point ≤ d → d < self.new.point → cell_is_missing (cell_at self.old.window d) ≡ false }
        ensures missing { self.new.point < places_of self.old → cell_is_missing (cell_at self.old.window self.new.point) ≡ true }
    {
        self.point = self
            .window
            .find(Seek::NothingThere, self.point, self.window.width());
    }

    /// Returns the number of sequence numbers in the window, 32 to 8192.
    pub fn width(&self) -> u32
        ensures { HoldsOf self.now (λ width initial r. result ≡ width) }
    {
        self.window.width() as u32
    }

    /// Returns the first sequence number of the window. All numbers before it are delivered, dropped or given up.
    pub fn front(&self) -> Seq31
        ensures { HoldsOf self.now (λ width initial r. word_of result ≡ number_word initial r.front) }
    {
        let front = self.front;
        front
    }

    /// Returns the number after the highest received one, or the front if nothing received is left in the window.
    pub fn top(&self) -> Seq31
        ensures { HoldsOf self.now (λ width initial r. word_of result ≡ number_word initial (top r)) }
    {
        self.front.add(self.end as u32)
    }

    /// Returns the acknowledgement point: the least missing number from the front on, or the window's end if none is
    /// missing (section 4.8.1). O(1).
    pub fn ack_point(&self) -> Seq31
        ensures { HoldsOf self.now (λ width initial r. word_of result ≡ number_word initial (ack_point width r)) }
    {
        self.front.add(self.point as u32)
    }

    /// Returns the available buffer size in packets: the number of places from the acknowledgement point to the
    /// window's end (section 3.2.4). O(1).
    pub fn available(&self) -> u32
        ensures { HoldsOf self.now (λ width initial r. result ≡ available width r) }
    {
        (self.window.width() - self.point) as u32
    }

    /// Whether any received packet is not yet delivered. O(1).
    pub fn waiting(&self) -> bool
        ensures { HoldsOf self.now (λ width initial r. result ≡ is_waiting r) }
    {
        0 < self.end
    }

    /// Returns the place of the first packet after the front's place, if a packet is stored at `at`.
    fn next_with(&self, at: usize) -> usize
        ensures apart { (d : ℕ) → 0 < d → d < result → d ≢ at }
        ensures between { (d : ℕ) → 0 < d → d < result → cell_is_received (cell_at self.now.window d) ≡ false }
        ensures here { result ≢ at → result < max self.now.end (at + 1) → cell_is_received (cell_at self.now.window result) ≡ true }
    {
        if at == 0 {
            return self.next;
        }
        if self.next < self.end {
            self.next.min(at)
        } else {
            at
        }
    }

    /// Returns the place of the first packet after a place; `end` or more if there is none. O(1) if the place is
    /// before `next`, else linear in the distance to that packet.
    fn packet_after(&self, at: usize) -> usize
        requires { at ≤ places_of self.now }
        ensures low { at < result }
        ensures between { (d : ℕ) → at < d → d < result → cell_is_received (cell_at self.now.window d) ≡ false }
        ensures here { result < self.now.end → cell_is_received (cell_at self.now.window result) ≡ true }
    {
        if at < self.next {
            self.next
        } else {
            self.window
                .find(Seek::APacket, at + 1, self.end.max(at + 1))
        }
    }

    /// Processes a drop request for the numbers `first` to `last`, inclusive (section 3.2.9). Its numbers in the
    /// window that aren't received are dropped, and the front moves past dropped numbers. Received packets stay. If
    /// `last` is 2^30 or more past `first`, as in a backward range, nothing changes. Linear in the number of places
    /// that the range covers; doesn't allocate.
    pub fn dropped(&mut self, first: Seq31, last: Seq31)
        ensures { Becomes self.old self.new (λ width initial r. requested width (own_range initial first last) r) }
    {
        let Some(span) = last.offset_in(first, RANGE_END) else {
            return;
        };
        let (from, end) = overlap(self.front, first, span, self.window.width() as u32);
        self.window.drop_range(from as usize, end as usize);
        self.find_point();
        self.settle();
    }

    /// Moves the front on by `count` places.
    pub(crate) fn shift(&mut self, count: usize)
        requires { count ≤ places_of self.old }
        ensures { Becomes self.old self.new (λ width initial r. moved_to (r.front + count) r) }
    {
        let next = self.packet_after(count);
        self.window.slide_by(count);
        self.front = self.front.add(count as u32);
        self.end = self.end.saturating_sub(count);
        self.point = self.point.saturating_sub(count);
        self.next = next - count;
        self.find_point();
    }

    /// Moves the front past dropped numbers.
    pub(crate) fn settle(&mut self)
        ensures { Becomes self.old self.new (λ width initial r. settled width r) }
    {
        let dropped = self.window.find(Seek::NotDropped, 0, self.window.width());
        self.shift(dropped);
    }
}

/// Returns the places of the window from `front` on whose numbers are in the range of `span` + 1 numbers from `first`
/// on: from the first result on and before the second. (0, 0) if there are none.
fn overlap(front: Seq31, first: Seq31, span: u32, width: u32) -> (u32, u32)
    requires short { span < 2 ^ 30 }
    requires narrow { width ≤ 8192 }
    ensures order { result.0 ≤ result.1 }
    ensures inside { result.1 ≤ width }
    ensures places { (d : ℕ) → d < width → (nat_le result.0 d && nat_lt d result.1) ≡ nat_le (offset_of (word_of front + d) (word_of first)) span }
{
    if let Some(past) = front.offset_in(first, span + 1) {
        (0, (span - past + 1).min(width))
    } else if let Some(from) = first.offset_in(front, width) {
        (from, (from + span + 1).min(width))
    } else {
        (0, 0)
    }
}
