//! The limits of the log: how many lines a second may have about sessions, and how many about refused callers.

ghost use Rattle.std.specs.Prelude.{◌≡◌, ◌-◌, [], ◌∷◌, List, true, false};

use srt_types::product_limits::{MAX_REFUSAL_LINES, MAX_SESSION_LINES};

/// The microseconds of a second.
const SECOND: u64 = 1_000_000;

/// The decision of a limit about one line.
#[derive(Clone, Copy)]
pub struct LineAllowance {
    /// Whether the line may be written.
    pub written: bool,
    /// How many lines were left out in the second before, to be logged ahead of this one; 0 for none.
    pub left_out: u64,
}

/// The lines of the latest second, of which the caller allows a number. Seconds are computed from the times passed in, in
/// microseconds. A time before the latest one belongs to the latest second.
#[derive(Clone, Copy)]
pub(crate) struct LineLimit {
    second: u64,
    lines: u64,
}

impl LineLimit {
    ghost use Rattle.srt_log.specs.LineLimit.{LimitCall, StandsFor, lines_in, is_within, omitted_within};

    // Returns a limit before its first line.
    fn new() -> LineLimit
        ensures { StandsFor result [] }
    {
        LineLimit {
            second: 0,
            lines: 0,
        }
    }

    // Whether one more line may be written at this time, where a second may have so many. Returns also how many lines the
    // second before had beyond that.
    fn line_within(&mut self, moment: u64, most: u64) -> LineAllowance
        ensures stands { (calls : List LimitCall) → StandsFor self.old calls → StandsFor self.new (record { is_line = true; moment = moment } ∷ calls) }
        ensures written { (calls : List LimitCall) → StandsFor self.old calls → result.written ≡ is_within most calls moment }
        ensures left_out { (calls : List LimitCall) → StandsFor self.old calls → result.left_out ≡ omitted_within most calls moment }
    {
        let left_out = self.begin_second(moment, most);
        self.lines = self.lines.saturating_add(1);
        LineAllowance {
            written: self.lines <= most,
            left_out,
        }
    }

    // Returns how many lines of the current second are beyond `most`.
    fn beyond(&self, most: u64) -> u64
        ensures { (calls : List LimitCall) → StandsFor self.now calls → result ≡ lines_in calls - most }
    {
        self.lines.saturating_sub(most)
    }

    // Begins a new second, if it has come, and returns how many lines the one before had beyond `most`; else 0.
    fn begin_second(&mut self, moment: u64, most: u64) -> u64
        ensures stands { (calls : List LimitCall) → StandsFor self.old calls → StandsFor self.new (record { is_line = false; moment = moment } ∷ calls) }
        ensures left_out { (calls : List LimitCall) → StandsFor self.old calls → result ≡ omitted_within most calls moment }
    {
        let second = moment / SECOND;
        if second <= self.second {
            return 0;
        }
        let left_out = self.lines.saturating_sub(most);
        self.second = second;
        self.lines = 0;
        left_out
    }
}

/// The kind of a line: which share of a second's lines it is of.
#[derive(Clone, Copy)]
pub enum LineKind {
    /// An opening, an end, a take-over, or another line about a session or a route.
    Session,
    /// A caller that was refused.
    Refusal,
}

/// A limit of lines in which each kind has its own share: 40 in a second about sessions, 10 about refusals. However many
/// callers are refused, no line about a session is left out for them (`laws::shares_are_apart`).
#[derive(Clone, Copy)]
pub struct LineShares {
    sessions: LineLimit,
    refusals: LineLimit,
}

impl LineShares {
    ghost use Rattle.srt_log.specs.LineShares.{SharedCall, line_of, polled, AreShares, is_shared, omitted_of, omitted_in, beyond_in};

    /// Returns shares before their first line.
    pub fn new() -> LineShares
        ensures { AreShares result [] }
    {
        LineShares {
            sessions: LineLimit::new(),
            refusals: LineLimit::new(),
        }
    }

    /// Whether one more line of this kind may be written at this time, in microseconds. Returns also how many lines of its
    /// kind were left out in the second before, if this line is the first of a new one.
    pub fn line(&mut self, kind: LineKind, moment: u64) -> LineAllowance
        ensures stands { (calls : List SharedCall) → AreShares self.old calls → AreShares self.new (line_of kind moment ∷ calls) }
        ensures written { (calls : List SharedCall) → AreShares self.old calls → result.written ≡ is_shared calls kind moment }
        ensures left_out { (calls : List SharedCall) → AreShares self.old calls → result.left_out ≡ omitted_of calls kind moment }
    {
        match kind {
            LineKind::Session => self.sessions.line_within(moment, MAX_SESSION_LINES),
            LineKind::Refusal => self.refusals.line_within(moment, MAX_REFUSAL_LINES),
        }
    }

    /// Returns how many lines of both kinds were left out in the second before, if a new one has begun by this time, and 0
    /// otherwise. Returns the number once.
    pub fn poll(&mut self, moment: u64) -> u64
        ensures stands { (calls : List SharedCall) → AreShares self.old calls → AreShares self.new (polled moment calls) }
        ensures left_out { (calls : List SharedCall) → AreShares self.old calls → result ≡ omitted_in calls moment }
    {
        let sessions = self.sessions.begin_second(moment, MAX_SESSION_LINES);
        let refusals = self.refusals.begin_second(moment, MAX_REFUSAL_LINES);
        sessions.saturating_add(refusals)
    }

    /// Returns how many lines of the current second are left out so far.
    pub fn left_out(&self) -> u64
        ensures { (calls : List SharedCall) → AreShares self.now calls → result ≡ beyond_in calls }
    {
        let sessions = self.sessions.beyond(MAX_SESSION_LINES);
        sessions.saturating_add(self.refusals.beyond(MAX_REFUSAL_LINES))
    }
}
