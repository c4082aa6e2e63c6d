//! Drop requests: whether a NAK requests numbers that are gone, that is, expired and not acknowledged, and the run of
//! such numbers that a drop request announces (draft-sharabayko-srt-01, sections 3.2.5 and 3.2.9; which run is our
//! choice).

ghost use Rattle.std.specs.Prelude.{◌≡◌, ◌^◌, ◌<◌};
ghost use Rattle.srt_types.specs.Runs.{span, ranges_from, range_from};
ghost use Rattle.srt_loss.specs.Text.{range_of};

use crate::buffer::{DropRun, SendBuf};
use srt_loss::{LossRef, part_in};
use srt_types::Seq31;

impl SendBuf {
    ghost use Rattle.srt_sendbuf.specs.Sending.{front, base, asks_for_gone, range_asks_for_gone};
    ghost use Rattle.srt_sendbuf.specs.Outgoing.{gone, gone_by};
    ghost use Rattle.srt_sendbuf.specs.Stands.{ForWhatever};

    /// Whether a range contains a number from the base up to the front, that is, an expired number that isn't
    /// acknowledged.
    fn asks_gone(&self, range: (Seq31, Seq31)) -> bool
        requires short { span (range_of range) < 2 ^ 30 }
        ensures { ForWhatever self.now (λ width initial r. result ≡ range_asks_for_gone (range_from initial (range_of range)) r) }
    {
        let back = self.back();
        match part_in(range, self.number_back(back), back as u32) {
            Some(_) => true,
            None => false,
        }
    }

    /// Whether any range of a loss list contains such a number. Linear in its ranges.
    pub(crate) fn asks_any_gone(&self, losses: &LossRef<'_>) -> bool
        ensures { ForWhatever self.now (λ width initial r. result ≡ asks_for_gone (ranges_from initial losses.now) r) }
    {
        let mut ranges = losses.ranges();
        while let Some(range) = ranges.next_range() {
            if self.asks_gone(range) {
                return true;
            }
        }
        false
    }

    /// Returns the run of numbers from the base up to the front. Only for a base below the front.
    pub(crate) fn gone(&self) -> DropRun
        ensures { ForWhatever self.now (λ width initial r. base r < front r → gone_by result ≡ gone initial r) }
    {
        DropRun {
            first: self.number_back(self.back()),
            last: self.number_back(1),
            message: self.message,
        }
    }
}
