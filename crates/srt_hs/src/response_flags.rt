//! The flags of an HSRSP block, the same for all sessions of a delivery mode (section 3.2.1.1.1).

ghost use Rattle.std.specs.Prelude.{◌≡◌};
ghost use Rattle.srt_hs.specs.Text.{flags_of};

use srt_types::Mode;

/// Returns the flags of the answer to a conclusion. In live mode TSBPDSND, TSBPDRCV, CRYPT, TLPKTDROP, PERIODICNAK and
/// REXMITFLG; in buffer mode CRYPT, PERIODICNAK, REXMITFLG and STREAM.
pub(crate) fn flags(mode: Mode) -> u32
    ensures { result ≡ flags_of mode }
{
    match mode {
        Mode::Live => 0x3f,
        Mode::Buffer => 0x74,
    }
}
