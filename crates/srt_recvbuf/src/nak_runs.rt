//! Gaps: the runs of missing numbers that a NAK reports (draft-sharabayko-srt-01, section 4.8.2), lowest first and at
//! most 32.

ghost use Rattle.std.specs.Prelude.{◌≡◌, ◌+◌, ◌-◌, ◌≤◌, nat_lt};
ghost use Rattle.srt_types.specs.Window.{word_of};
ghost use Rattle.srt_types.specs.Runs.{runs};

use crate::buffer::RecvBuf;
use crate::window::Seek;
use arrayvec::ArrayVec;
use srt_types::Seq31;
use srt_types::protocol_limits::MAX_NAK_RUNS;

impl RecvBuf {
    ghost use Rattle.srt_recvbuf.specs.Stands.{said_runs, words_of};
    ghost use Rattle.srt_recvbuf.specs.Changes.{HoldsOf, AreRunsFrom};
    ghost use Rattle.srt_recvbuf.specs.Receiving.{ack_point, end_of};

    /// Whether any number from the front to the highest received one is missing. O(1).
    pub fn has_gaps(&self) -> bool
        ensures { HoldsOf self.now (λ width initial r. result ≡ nat_lt (ack_point width r) (end_of r.arrivals)) }
    {
        self.point < self.end
    }

    /// Returns the runs that a NAK reports (section 4.8.2): the first 32 runs of missing numbers from `from` on and
    /// below the highest received number, lowest first. Each is a pair of its first and its last number. Empty if
    /// `from` is outside front..=front + width. Linear in the distance from the first missing number, or from `from`
    /// if that is greater, to the highest received one; doesn't allocate.
    pub fn runs(&self, from: Seq31) -> ArrayVec<(Seq31, Seq31), MAX_NAK_RUNS>
        ensures { HoldsOf self.now (λ width initial r. words_of result.items ≡ said_runs width initial (word_of from) r) }
    {
        match from.offset_in(self.front, self.window.width() as u32 + 1) {
            Some(offset) => self.runs_at((offset as usize).max(self.point).min(self.end)),
            None => ArrayVec::new(),
        }
    }

    /// Returns the first 32 runs of missing places from `from` on and before `end`.
    fn runs_at(&self, from: usize) -> ArrayVec<(Seq31, Seq31), MAX_NAK_RUNS>
        requires { from ≤ self.now.end }
        ensures { AreRunsFrom from self.now result.items }
    {
        let mut runs = ArrayVec::new();
        let mut at = from;
        for _ in 0..MAX_NAK_RUNS {
            let low = self.window.find(Seek::NothingThere, at, self.end);
            if low == self.end {
                return runs;
            }
            at = self.window.find(Seek::SomethingThere, low, self.end);
            runs.push((self.front.add(low as u32), self.front.add((at - 1) as u32)));
        }
        runs
    }
}
