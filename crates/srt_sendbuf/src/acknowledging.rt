//! ACKs: which numbers an ACK may have, and what it acknowledges (draft-sharabayko-srt-01, section 3.2.4). The number
//! is from the base to next, inclusive; the base is at most 8192 before the front.

ghost use Rattle.std.specs.Prelude.{◌≡◌, ℕ, ◌+◌, ◌%◌, ◌^◌, ◌≤◌, false, option_map, is_some, min, IfSome};
ghost use Rattle.srt_types.specs.Window.{word_of};

use crate::buffer::{SendBuf, message_after};
use srt_types::Seq31;
use srt_types::protocol_limits::ACK_REACH;

impl SendBuf {
    ghost use Rattle.srt_sendbuf.specs.Sending.{base, acknowledged_at, after_ack, is_growth};
    ghost use Rattle.srt_sendbuf.specs.Stands.{ForWhatever, Becomes};

    /// Returns the distance from the base to the front.
    pub(crate) fn back(&self) -> usize
        ensures value { result ≡ min self.now.behind 8192 }
    {
        self.behind.min(ACK_REACH)
    }

    /// Returns the sequence number `steps` before the front, 8192 at most.
    pub(crate) fn number_back(&self, steps: usize) -> Seq31
        requires { steps ≤ 8192 }
        ensures { (n : ℕ) → (n + steps) % 2 ^ 31 ≡ word_of self.now.front → word_of result ≡ n % 2 ^ 31 }
    {
        self.front.add((1 << 31) - steps as u32)
    }

    /// Returns the offset of an ACK's number from the base. None if it is outside base..=next.
    fn steps_of(&self, number: Seq31) -> Option<usize>
        ensures value { ForWhatever self.now (λ width initial r. option_map (λ d. base r + d) result ≡ acknowledged_at initial (word_of number) r) }
        ensures below { IfSome result (λ d. d ≤ min self.now.behind 8192 + self.now.sent) }
    {
        let back = self.back();
        match number.offset_in(self.number_back(back), (back + self.sent) as u32 + 1) {
            Some(steps) => Some(steps as usize),
            None => None,
        }
    }

    /// Processes an ACK of all numbers below this one (section 3.2.4). False if the number is outside base..=next;
    /// then nothing changes. Linear in the packets that it acknowledges.
    pub fn ack(&mut self, number: Seq31) -> bool
        ensures stands { Becomes self.old self.new (λ initial r. after_ack (acknowledged_at initial (word_of number) r) r) }
        ensures answer { ForWhatever self.old (λ width initial r. result ≡ is_some (acknowledged_at initial (word_of number) r)) }
        ensures same { result ≡ false → self.new ≡ self.old }
    {
        let Some(steps) = self.steps_of(number) else {
            return false;
        };
        let back = self.back();
        let message = message_after(self.message, steps);
        if steps < back {
            self.move_front(0, back - steps, message);
        } else {
            self.move_front(steps - back, 0, message);
        }
        true
    }

    /// Whether an ACK with this number acknowledges more than all earlier ACKs. False if the number is outside
    /// base..=next. O(1).
    pub fn grows(&self, number: Seq31) -> bool
        ensures { ForWhatever self.now (λ width initial r. result ≡ is_growth (acknowledged_at initial (word_of number) r) r) }
    {
        match self.steps_of(number) {
            Some(steps) => steps > 0 || self.behind > ACK_REACH,
            None => false,
        }
    }
}
