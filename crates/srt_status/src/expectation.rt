//! What is expected of a route: that it is on air.

ghost use Rattle.std.specs.Prelude.{◌≡◌, ◌≤◌};
ghost use Rattle.srt_status.specs.Expectations.{has_active, is_on_air, met, begun, told_by, looked, line_if, line_at, expected_if, seconds_absent};

use srt_route::SessionView;

/// Ten minutes, in microseconds.
const TEN_MINUTES: u64 = 600_000_000;

/// The expectation that a route is on air: that it has an active publisher. Times are in microseconds of the routes' clock.
#[derive(Clone, Copy, PartialEq, Eq)]
pub struct Expectation {
    /// When the first look in a row found no active publisher; None if the last one found one, or there was none.
    absent_since: Option<u64>,
    /// How long that lasted at the last look.
    absent_for: u64,
    /// The lines of the log about it.
    told: u64,
}

/// Whether a slot has the active publisher.
fn has_active(slot: &Option<SessionView>) -> bool
    ensures { result ≡ has_active slot.now }
{
    match slot {
        Some(session) => session.is_active,
        None => false,
    }
}

/// Whether a route with these open sessions is on air: whether one of them is the active publisher.
fn is_on_air(sessions: &[Option<SessionView>]) -> bool
    ensures { result ≡ is_on_air sessions.now }
{
    sessions.iter().any(|slot| has_active(slot))
}

/// Returns the minutes that a line tells of, if fewer lines are written than are due.
fn line_if(told: u64, due: u64) -> Option<u64>
    requires { due ≤ 18_446_744_073_709_552 }
    ensures { result ≡ line_if told due }
{
    if due <= told {
        return None;
    }
    Some((due - 1) * 10)
}

impl Expectation {
    /// Returns that of a route before the first look at it.
    pub fn new() -> Expectation
        ensures { result ≡ met }
    {
        Expectation {
            absent_since: None,
            absent_for: 0,
            told: 0,
        }
    }

    /// Notes a look at the route at this moment, when it has these open sessions. Returns a number if a line of the log is due: the
    /// minutes since the first look that found no active publisher, in tens. One is due at that look (0), and one more each ten
    /// minutes as long as none finds one.
    pub fn look(&mut self, sessions: &[Option<SessionView>], moment: u64) -> Option<u64>
        ensures new { self.new ≡ looked self.old (is_on_air sessions.now) moment }
        ensures line { result ≡ line_at self.old (is_on_air sessions.now) moment }
    {
        if is_on_air(sessions) {
            *self = Expectation::new();
            return None;
        }
        let since = self.absent_since.unwrap_or(moment);
        let lasted = moment.saturating_sub(since);
        let due = lasted / TEN_MINUTES + 1;
        let line = line_if(self.told, due);
        self.absent_since = Some(since);
        self.absent_for = lasted;
        if self.told < due {
            self.told = due;
        }
        line
    }

    /// Returns for how many whole seconds the route had no active publisher at the last look; 0 if it had one.
    pub(crate) fn seconds_absent(&self) -> u64
        ensures { result ≡ seconds_absent self.now }
    {
        self.absent_for / 1_000_000
    }
}

/// Returns the expectation of a route by a configuration that expects it to be on air or doesn't: the one from before, if there is
/// one, goes on. None if it isn't expected.
pub fn expected_if(expected: bool, before: Option<Expectation>) -> Option<Expectation>
    ensures { result ≡ expected_if expected before }
{
    if !expected {
        return None;
    }
    match before {
        Some(expectation) => Some(expectation),
        None => Some(Expectation::new()),
    }
}
