//! When packets are too late (draft-sharabayko-srt-01, section 4.6).

ghost use Rattle.std.specs.Prelude.{◌≡◌, ℕ, ◌^◌, ◌<◌, ◌↔◌, pos, ◌-ℤ◌, ◌<ℤ◌};
ghost use Rattle.srt_timing.specs.Deadline.{IsTooLate, too_late_at};

use srt_types::protocol_limits::MIN_TLPKTDROP_US;

/// Returns the threshold of too-late packet drop: a packet that was queued before the returned time is too late at
/// `now`. It is `now` less the greater of 1.25 times the session's delay `latency` and one second (section 4.6). All
/// are microseconds; the result is negative while no packet can be too late.
pub fn too_late_before(now: u64, latency: u32) -> i64
    requires { now < 2 ^ 62 }
    ensures too_late { (origin : ℕ) → (pos origin <ℤ result) ↔ IsTooLate latency (pos now -ℤ pos origin) }
    ensures value { result ≡ too_late_at now latency }
{
    let threshold = (u64::from(latency) * 5 / 4).max(MIN_TLPKTDROP_US);
    now as i64 - threshold as i64
}
