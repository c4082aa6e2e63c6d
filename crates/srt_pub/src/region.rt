//! The position of a data packet's number relative to the window (draft-sharabayko-srt-01, section 3.1).

ghost use Rattle.std.specs.Prelude.{◌≡◌};
ghost use Rattle.srt_types.specs.Window.{counted_from};
ghost use Rattle.srt_pub.specs.Publishing.{region_in};

use crate::session::{Publisher, steps};
use srt_types::Seq31;
use srt_types::protocol_limits::RANGE_END;

/// The position of a data packet's number relative to the window.
#[derive(Clone, Copy, Debug, PartialEq, Eq)]
pub enum Region {
    /// In the window.
    Inside,
    /// At or past the window's end, by fewer than 2^30.
    Ahead,
    /// Anywhere else, that is, below the window's front.
    Late,
}

impl Publisher {
    ghost use Rattle.srt_pub.specs.Changes.{HoldsOf};

    /// Returns the region of a number. A word with its top bit set, which is no sequence number, is late.
    pub(crate) fn region_of(&self, word: u32) -> Region
        ensures { HoldsOf self.now (λ terms initial m. result ≡ region_in terms.width (counted_from initial word) m.receiving) }
    {
        let Some(number) = Seq31::new(word) else {
            return Region::Late;
        };
        let distance = steps(self.buffer.front(), number);
        let width = self.buffer.width();
        if distance < width {
            return Region::Inside;
        }
        if distance - width < RANGE_END {
            Region::Ahead
        } else {
            Region::Late
        }
    }
}
