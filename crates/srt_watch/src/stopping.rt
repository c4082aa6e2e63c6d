//! How a gateway that was asked to stop goes on to its end.

ghost use Rattle.std.specs.Prelude.{◌≡◌};
ghost use Rattle.srt_watch.specs.Stopping.{is_over, stop_step};

/// The longest time between the wish to stop and the end, in microseconds: a second.
const MAX_STOP: u64 = 1_000_000;

/// The least such time, in microseconds: what is on its way to a route's queues arrives there meanwhile.
const MIN_STOP: u64 = 50_000;

/// What a gateway does next.
#[derive(Clone, Copy, Debug, PartialEq, Eq)]
pub(crate) enum StopStep {
    /// It goes on: nobody asked it to stop.
    GoOn,
    /// It closes its routes, and sends what is left to send.
    Close,
    /// It ends.
    End,
}

/// Whether a stop that was asked for is over.
fn is_over(requested_at: u64, now: u64, is_quiet: bool) -> bool
    ensures { result ≡ is_over requested_at now is_quiet }
{
    let most = u128::from(requested_at) + u128::from(MAX_STOP);
    let least = u128::from(requested_at) + u128::from(MIN_STOP);
    most <= u128::from(now) || (is_quiet && least <= u128::from(now))
}

/// What a gateway does at a moment `now`, where a stop was asked for at the moment `requested_at`, if at all. Moments are
/// in microseconds of one clock. `is_quiet`: no session is open, and nothing is left to send. It ends a second after
/// the wish at the latest, and a twentieth of a second after it at the earliest.
pub(crate) fn stop_step(requested_at: Option<u64>, now: u64, is_quiet: bool) -> StopStep
    ensures { result ≡ stop_step requested_at now is_quiet }
{
    match requested_at {
        None => StopStep::GoOn,
        Some(requested_at) => {
            if is_over(requested_at, now, is_quiet) {
                StopStep::End
            } else {
                StopStep::Close
            }
        }
    }
}
