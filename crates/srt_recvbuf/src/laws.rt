//! Facts about the definitions. Each function has an empty body: its contract is the fact.

ghost use Rattle.srt_recvbuf.specs.OneByOne.{OthersWait, PassesOneByOne, UnbrokenOneByOne, NothingBeyond, NothingDroppedBeyond};
ghost use Rattle.srt_recvbuf.specs.Points.{AckPoints, SettlesAtTheLeast};
ghost use Rattle.srt_recvbuf.specs.Receiving.{Receiving};
ghost use Rattle.srt_recvbuf.specs.Stands.{StandsFor};
ghost use Rattle.std.specs.Prelude.{ℕ};

use crate::RecvBuf;

/// Delivering payloads one by one has the same result as delivering them together.
pub fn one_by_one()
    ensures wait { OthersWait }
    ensures pass { PassesOneByOne }
    ensures unbroken { UnbrokenOneByOne }
{}

/// The acknowledgement point is the least missing number of the window, or the window's end. The front moves on to
/// the least number that isn't dropped.
pub fn ack_points()
    ensures missing { AckPoints }
    ensures settled { SettlesAtTheLeast }
{}

/// No number past the window is received or dropped in any record that a buffer represents.
pub fn window_ends(buffer: &RecvBuf)
    ensures dropped { (width initial origin : ℕ) (r : Receiving) → StandsFor width initial origin buffer.now r → NothingDroppedBeyond width r }
    ensures received { (width initial origin : ℕ) (r : Receiving) → StandsFor width initial origin buffer.now r → NothingBeyond width r }
{}
