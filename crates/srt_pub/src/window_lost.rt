//! The end of a live publisher's session whose window is lost (our choice).

ghost use Rattle.std.specs.Prelude.{◌≡◌, ℕ, List};
ghost use Rattle.srt_types.specs.Window.{counted_from};
ghost use Rattle.srt_pub.specs.Publishing.{loses_window, is_past_window};

use crate::session::Publisher;
use srt_types::protocol_limits::RANGE_END;
use srt_types::{Mode, Seq31};

impl Publisher {
    ghost use Rattle.srt_pub.specs.Changes.{HoldsOf, data_from, loses_window_by};

    /// Whether an unencrypted data packet with this number ends the session. Never in buffer mode.
    pub(crate) fn loses_window(&self, word: u32) -> bool
        ensures { (payload : List ℕ) → HoldsOf self.now (λ terms initial m. result ≡ loses_window_by terms (data_from initial word 0 payload) m) }
    {
        match self.agreed.mode {
            Mode::Live => self.is_past(word),
            Mode::Buffer => false,
        }
    }

    /// Whether no received packet waits for delivery, and a number is past the window by fewer than 2^30.
    fn is_past(&self, word: u32) -> bool
        ensures { HoldsOf self.now (λ terms initial m. result ≡ is_past_window terms.width (counted_from initial word) m.receiving) }
    {
        if self.buffer.waiting() {
            return false;
        }
        let Some(number) = Seq31::new(word) else {
            return false;
        };
        let end = self.buffer.front().add(self.buffer.width());
        number.offset_in(end, RANGE_END).is_some()
    }
}
