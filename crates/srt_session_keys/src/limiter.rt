//! The rate limit on key derivations of a route.

ghost use Rattle.std.specs.Prelude.{◌≡◌, ◌<◌, ◌^◌, false, is_some};

/// The time that an admitted request takes of the route's share, in microseconds.
const ROUTE_INTERVAL_US: u64 = 50_000;

/// The same of the share of a group of addresses, in microseconds.
const GROUP_INTERVAL_US: u64 = 500_000;

/// How many further requests may come at once.
const BURST: u64 = 19;

/// The permission to derive one key from a passphrase. Only [`DerivationLimiter::admits`] makes one, for each derivation that
/// it counts, and [`WrappingKey::derive`](crate::WrappingKey::derive) takes it. It can't be copied.
#[derive(Drop)]
pub struct DerivationPermit {
    _counted: (),
}

/// Limits how often a route derives a key from a passphrase, which takes milliseconds (our choice): the generic cell rate
/// algorithm, for the route and for each of 64 groups of addresses. Its size is fixed, 520 bytes.
#[derive(Drop)]
pub struct DerivationLimiter {
    route: u64,
    groups: [u64; 64],
}

impl DerivationLimiter {
    ghost use Rattle.srt_session_keys.specs.Limiter.{Request, moments_of, no_moments, is_admitted, moments_with};

    /// Returns the limiter of a route that opens.
    pub fn new() -> DerivationLimiter
        ensures { moments_of result ≡ no_moments }
    {
        DerivationLimiter {
            route: 0,
            groups: [0; 64],
        }
    }

    /// Returns the permission for a derivation at `now`, in microseconds, for a caller whose address ends in `last_byte`: it
    /// counts as done. None if the limits don't admit it: then nothing changes. A group of addresses, those with the same last
    /// byte modulo 64, may have 20 at once and then one each 500 ms, the route 20 and then one each 50 ms. O(1).
    pub fn admits(&mut self, now: u64, last_byte: u8) -> Option<DerivationPermit>
        requires { now < 2 ^ 62 }
        ensures value { is_some result ≡ is_admitted (moments_of self.old) (record { now = now; last_byte = last_byte }) }
        ensures moments { moments_of self.new ≡ moments_with (record { now = now; last_byte = last_byte }) (moments_of self.old) }
        ensures refused { is_some result ≡ false → self.new ≡ self.old }
    {
        let group = usize::from(last_byte % 64);
        let moment = self.groups[group];
        if moment > now + BURST * GROUP_INTERVAL_US {
            return None;
        }
        if self.route > now + BURST * ROUTE_INTERVAL_US {
            return None;
        }
        self.groups[group] = moment.max(now) + GROUP_INTERVAL_US;
        self.route = self.route.max(now) + ROUTE_INTERVAL_US;
        Some(DerivationPermit { _counted: () })
    }
}
