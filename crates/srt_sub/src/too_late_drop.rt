//! Too-late packet drop: which packets of a subscriber are dropped because they are too late to send
//! (draft-sharabayko-srt-01, section 4.6).

ghost use Rattle.std.specs.Prelude.{◌≡◌, ◌^◌, ◌<◌};
ghost use Rattle.srt_sub.specs.Subscribing.{expired};

use crate::session::Subscriber;
use srt_timing::too_late_before;
use srt_types::Mode;

impl Subscriber {
    ghost use Rattle.srt_sub.specs.Stands.{BecomesBy};
    ghost use Rattle.srt_sub.specs.Feeding.{DropsTooLate};

    /// Drops the packets that are too late, sent or not: in live mode those queued longer ago than the greater of 1.25
    /// times the delay and one second (too-late packet drop, section 4.6). A second call with the same `now` changes
    /// nothing. Linear in the number of dropped packets.
    pub fn expire(&mut self, now: u64)
        requires { now < 2 ^ 62 }
        ensures { BecomesBy now self.old self.new (λ terms initial time m. expired terms time m) }
    {
        self.drop_old(now);
    }

    /// Drops the packets that are too late at the clock's time `now`; in buffer mode none are.
    #[inline(always)]
    pub(crate) fn drop_old(&mut self, now: u64)
        requires { now < 2 ^ 62 }
        ensures stands { DropsTooLate now self.old self.new }
        ensures phase { self.new.phase ≡ self.old.phase }
    {
        let time = self.time(now);
        match self.mode {
            Mode::Live => {
                let count = self.buffer.expire(too_late_before(time, self.delay));
                self.counts.give_up(count);
            }
            Mode::Buffer => {}
        }
    }
}
