//! Delivery: which packet is delivered next, and when a gap before it is given up, the receiver's too-late packet drop
//! (draft-sharabayko-srt-01, sections 4.5 and 4.6).

ghost use Rattle.std.specs.Prelude.{◌≡◌, ◌^◌, ◌<◌, ◌≤◌, ◌+◌, ℕ, IfSome, is_some, option_copied, length, true, false};
ghost use Rattle.srt_recvbuf.specs.Cells.{cell_at, cell_is_received};

use crate::buffer::RecvBuf;
use crate::window::Seek;

impl RecvBuf {
    ghost use Rattle.srt_recvbuf.specs.Stands.{IsNextDue, places_of};
    ghost use Rattle.srt_recvbuf.specs.Changes.{Becomes, BecomesAt, HoldsOfAt, payload_in};
    ghost use Rattle.srt_recvbuf.specs.Receiving.{settled, moved_to, next_due, after_next};

    /// Returns the payload that is to be delivered next, at most 1456 bytes. It is the payload of the least received
    /// number, if that is due at `now` (microseconds, below 2^62) and `room` isn't 0 (sections 4.5 and 4.6). None if
    /// there is none: a packet that isn't due holds back those after it. O(1), and no byte is copied. The payload
    /// stays in the buffer until `note_delivered` is called.
    ///
    /// Only whether `room` is 0 matters. In buffer mode pass 0 unless the acknowledgement point is past the front;
    /// otherwise a gap is skipped.
    pub fn next_due(&self, now: u64, room: u32) -> Option<&[u8]>
        requires { now < 2 ^ 62 }
        ensures answer { HoldsOfAt now self.now (λ origin time r. option_copied result ≡ payload_in (next_due time room r)) }
        ensures fits { IfSome result (λ p. length p.now ≤ 1456) }
    {
        let Some(at) = self.first_due(now, room) else {
            return None;
        };
        Some(self.window.payload(at))
    }

    /// Removes the payload that `next_due` returns for the same `now` and `room`, whether it was delivered or is
    /// omitted because no subscriber needs it. The front moves past its number, which gives up missing numbers before
    /// it, and past dropped numbers after it (sections 4.5 and 4.6). Returns whether there was one; if not, nothing
    /// changes. Linear in the places that the front and the acknowledgement point pass, and in the distance to the
    /// next packet.
    pub fn note_delivered(&mut self, now: u64, room: u32) -> bool
        requires { now < 2 ^ 62 }
        ensures stands { BecomesAt now self.old self.new (λ width time r. after_next width (next_due time room r) r) }
        ensures answer { HoldsOfAt now self.old (λ origin time r. result ≡ is_some (next_due time room r)) }
    {
        match self.first_due(now, room) {
            Some(at) => {
                self.move_past(at);
                true
            }
            None => false,
        }
    }

    /// Returns the place of the first packet, if it is due at `now` and `room` isn't 0. None if there is no packet, or
    /// it isn't due yet.
    fn first_due(&self, now: u64, room: u32) -> Option<usize>
        requires { now < 2 ^ 62 }
        ensures first { HoldsOfAt now self.now (λ origin time r. IsNextDue origin time room (cell_at self.now.window) r result) }
        ensures below { IfSome result (λ d. d < places_of self.now) }
    {
        if room == 0 {
            return None;
        }
        let at = self.first_packet();
        if at >= self.end {
            return None;
        }
        let due = self.window.due(at)?;
        if due <= now as i64 { Some(at) } else { None }
    }

    /// Moves the front past the packet of a place, and past dropped numbers after it.
    fn move_past(&mut self, at: usize)
        requires { at < places_of self.old }
        ensures { Becomes self.old self.new (λ width initial r. settled width (moved_to (r.front + (at + 1)) r)) }
    {
        self.shift(at + 1);
        self.settle();
    }

    /// Returns the place of the first packet; `end` or more if there is none. O(1).
    fn first_packet(&self) -> usize
        ensures before { (d : ℕ) → d < result → cell_is_received (cell_at self.now.window d) ≡ false }
        ensures here { result < self.now.end → cell_is_received (cell_at self.now.window result) ≡ true }
    {
        if self.window.is(0, Seek::APacket) {
            0
        } else {
            self.next
        }
    }
}
