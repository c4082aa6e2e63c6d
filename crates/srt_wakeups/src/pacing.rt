//! How long the threads of a run sleep, and how much work makes them share it. The unit of a duration is in
//! its name, `_US` or `_MS`; all else are counts.

ghost use Rattle.std.specs.Prelude.{◌≡◌};
ghost use Rattle.srt_wakeups.specs.inside.Pacing.{doze_us, rest_us, all_rest, wakes_worker};

/// How long the ticking thread sleeps before each tick of the routes, in milliseconds.
pub const TICK_MS: u64 = 10;

/// How long a worker that found nothing to do sleeps at most before it looks again.
pub const NAP_US: u64 = 500;

/// How long a worker that found nothing again sleeps at most, and how long one waits at most in reserve.
pub const SLEEP_US: u64 = 100_000;

/// How long one worker sleeps at most for each route at which it found a little to do, if there were many: half a tick
/// for as many routes as there can be.
pub const DOZE_PER_ROUTE_US: u64 = 10;

/// How many sleeps of `SLEEP_US` the polling thread makes at most while it waits for the others. Each of at most 18
/// threads that arrives ends one early, so it waits for ten seconds or more.
pub const GATHER_SLEEPS: u32 = 120;

/// A round that read at least this many datagrams leaves them to the workers, and wakes one even if another is awake, if
/// they are for few routes.
pub const DATAGRAMS_FOR_WORKERS: u32 = 64;

/// A round is for few routes if it read at least this many datagrams for each route whose inbox it made ready.
pub const DATAGRAMS_PER_ROUTE: u64 = 8;

/// The polling thread leaves the datagrams of a round to the workers if they are `DATAGRAMS_FOR_WORKERS`, since it has enough to
/// do with reading and sending, and if they are for more routes than this, since it would wait for the memory of each.
pub const FEW_ROUTES: u64 = 8;

/// The most turns that the polling thread makes in a round. What is left then it leaves to the workers: meanwhile no
/// route's datagrams are read, so a route with costly ones would delay all others.
pub const POLLER_TURNS: u32 = 256;

/// The most turns that a worker makes at a route before it goes on to the next.
pub const WORKER_TURNS: u32 = 64;

/// A worker wakes another one if its round has moved at least this many replies and a further inbox is ready. Routes that
/// only apply a tick move none, so one worker serves them all: for so little work the caches of one processor do best.
pub const MANY_REPLIES: u32 = 32;

/// A worker's round was thin if it served at least this many routes, and made at most `THIN_TURNS` turns at each.
pub const THIN_ROUTES: u32 = 32;

/// The most turns at a route of a thin round.
pub const THIN_TURNS: u32 = 16;

/// How long a worker dozes at most after a thin round over this many routes: `DOZE_PER_ROUTE_US` for each of them, and at
/// least `NAP_US`.
pub(crate) fn doze_us(routes: u32) -> u64
    ensures { result ≡ doze_us routes }
{
    u64::from(routes)
        .saturating_mul(DOZE_PER_ROUTE_US)
        .max(NAP_US)
}

/// How long a worker rests at most: `SLEEP_US`, or `NAP_US` if an inbox is ready that it couldn't serve.
pub(crate) fn rest_us(is_ready: bool) -> u64
    ensures { result ≡ rest_us is_ready }
{
    if is_ready { NAP_US } else { SLEEP_US }
}

/// Whether no worker is awake or dozes: as many as there are rest, or are in reserve.
pub(crate) fn all_rest(resting: u64, reserve: u64, workers: u64) -> bool
    ensures { result ≡ all_rest resting reserve workers }
{
    resting.saturating_add(reserve) >= workers
}

/// Whether a round of the poller wakes a worker that read this many datagrams and made this many inboxes ready: if it read
/// `DATAGRAMS_FOR_WORKERS` or more, for few routes, or any while no worker is awake.
pub(crate) fn wakes_worker(datagrams: u32, begun: u64, all_rest: bool) -> bool
    ensures { result ≡ wakes_worker datagrams begun all_rest }
{
    let are_for_few = begun.saturating_mul(DATAGRAMS_PER_ROUTE) <= u64::from(datagrams);
    (datagrams >= DATAGRAMS_FOR_WORKERS && are_for_few) || (datagrams > 0 && all_rest)
}
