//! A log: lines to a writer, in a second at most 40 about sessions and routes and 10 about refused callers.

ghost use Rattle.std.specs.Prelude.{◌≡◌, ◌≤◌, ◌+◌, ◌++◌, [], ◌∷◌, List, true, nat_lt, IfSome};
ghost use Rattle.srt_log.specs.Events.{event_text};
ghost use Rattle.srt_log.specs.Texts.{put};
ghost use Rattle.srt_status.specs.Events.{HasKept};
ghost use Rattle.srt_watch.specs.Log.{IsStamp, IsTimeOf, LogState, HasState, Wrote, Logged, most, missed_of, after_missed};
ghost use Rattle.srt_watch.specs.Log.{line_at, line_if, left_out_text, said};
ghost use Rattle.srt_watch.specs.Log.{Offered, Always, Polled, Missed, Looked, Closed, is_refusal};
ghost use Rattle.srt_watch.specs.Draining.{IsDrained, HasClosed};
ghost use Rattle.srt_watch.specs.Writes.{lines_of, HasRefused, HasKeptIf, AreKept, HasKeptOf, given_if, given_some, given_by};
ghost use Rattle.srt_log.specs.declared.events.LogEvent.TheVariants.{Stopped, LeftOut};

use crate::machine::Machine;
use crate::output::{Flushed, Output};
use crate::rests::Rests;
use srt_log::{LineKind, LineShares, LogEvent, event_line, utc_text};
use srt_status::EventRing;
use std::alloc::Global;
use std::io::Write;
use std::mem;

/// The form of a log's lines.
#[derive(Clone, Copy)]
pub struct LogForm {
    /// Whether lines have their time.
    pub is_timed: bool,
    /// Whether each line is a JSON object.
    pub is_json: bool,
}

/// A time, by two clocks, and the form of the lines at it.
#[derive(Clone, Copy)]
pub(crate) struct When {
    /// Microseconds of the routes' clock.
    pub moment: u64,
    /// The system's time as text, for each line; none if lines have no time.
    pub stamp: Option<[u8; 24]>,
    /// Whether each line is a JSON object.
    pub is_json: bool,
}

// Returns the text of a time in microseconds since 1970, if lines have one.
fn stamp_of(is_timed: bool, time: u64) -> Option<[u8; 24]>
    ensures { IsStamp is_timed time result }
{
    if is_timed { Some(utc_text(time)) } else { None }
}

impl When {
    /// Reads both clocks. Lines have a time if they are to be timed.
    pub(crate) fn now<M: Machine>(machine: &mut M, form: LogForm) -> When
        ensures time { IfSome (M.says machine.old) (λ s. IsTimeOf form s result) }
        ensures form { result.is_json ≡ form.is_json }
        ensures known { M.facts.was_moment result.moment }
        ensures machine { M.says machine.new ≡ M.says machine.old }
    {
        let moment = machine.moment();
        let stamp = stamp_of(form.is_timed, machine.time());
        When {
            moment,
            stamp,
            is_json: form.is_json,
        }
    }
}

/// The microseconds of a second.
const SECOND: u64 = 1_000_000;

/// How many lines the current second of a log has, and what it left out.
#[derive(Clone, Copy)]
pub(crate) struct LogPace {
    shares: LineShares,
    // events that weren't passed to the log, and aren't logged as left out yet
    missed: u64,
    // the second in which they were logged last
    second: u64,
    // how often it was looked whether lines wait; nothing reads it
    looks: u64,
    // no write has failed so far
    is_whole: bool,
}

impl LogPace {
    // Returns that of a log without lines.
    fn new() -> LogPace
        ensures state { HasState result (record { calls = []; missed = 0; second = 0; looks = 0 }) }
        ensures whole { result.is_whole ≡ true }
    {
        LogPace {
            shares: LineShares::new(),
            missed: 0,
            second: 0,
            looks: 0,
            is_whole: true,
        }
    }

    // Returns the number of missed events to be logged now: once a second.
    fn missed_by(&mut self, moment: u64) -> u64
        ensures result { result ≡ missed_of self.old moment }
        ensures new { self.new ≡ after_missed self.old moment }
    {
        let second = moment / SECOND;
        if second <= self.second {
            return 0;
        }
        self.second = second;
        mem::replace(&mut self.missed, 0)
    }
}

// Whether the line of an event is about refused callers: one, how often it was refused again, or how many lines a flood of them
// left out.
fn is_refusal(event: LogEvent<'_>) -> bool
    ensures { result ≡ is_refusal event.entry }
{
    matches!(
        event,
        LogEvent::Refused { .. } | LogEvent::RefusedAgain { .. } | LogEvent::LeftOut { .. }
    )
}

/// The most rests in which a log's writer writes what waits in it, for a clock that stands still.
const MAX_RESTS: u32 = 100;

/// How the wait for a log's writer ended.
#[derive(Drop)]
pub(crate) enum Drained {
    /// All is out: nothing waits, and each line that wasn't written was counted in one that was.
    All(Flushed),
    /// The time was over, at this moment.
    Over(u64),
    /// After these rests the clock hadn't come to the end of the time.
    Rested(Rests),
}

/// How the two waits at the end of a log ended: the one before its last line, and the one after it.
#[derive(Drop)]
pub(crate) struct Closing {
    first: Drained,
    last: Drained,
}

/// A log, and its pace.
#[derive(Drop)]
pub(crate) struct LogWriter<W: Drop> {
    out: Output<W>,
    pace: LogPace,
    // the last lines, for the page
    events: EventRing,
    // how it ended; nothing reads it
    closing: Option<Closing>,
    ghost counted: { pace.is_whole ≡ true → out.refused ≡ 0 },
}

impl<W: Write + Drop> LogWriter<W> {
    /// Returns a log without lines.
    pub fn new(alloc: Global, out: W) -> LogWriter<W>
        ensures out { result.out.out ≡ out }
        ensures state { HasState result.pace (record { calls = []; missed = 0; second = 0; looks = 0 }) }
        ensures whole { result.pace.is_whole ≡ true }
        ensures events { result.events.events.items ≡ [] }
    {
        LogWriter {
            out: Output::new(alloc, out),
            pace: LogPace::new(),
            events: EventRing::new(),
            closing: None,
        }
    }

    /// Returns the last lines, for the page.
    pub(crate) fn events(&self) -> &EventRing
        ensures { result.now ≡ self.now.events }
    {
        &self.events
    }

    /// Counts events that weren't passed to the log as lines that were left out.
    pub fn miss(&mut self, count: u64)
        ensures logged { Logged (W.contents self.old.out.out) (W.contents self.new.out.out) self.old.pace self.new.pace (Missed count ∷ []) }
        ensures events { self.new.events ≡ self.old.events }
        ensures out { self.new.out ≡ self.old.out }
    {
        self.pace.missed = self.pace.missed.saturating_add(count);
    }

    // Keeps the line of an event for the page.
    fn keep(&mut self, when: When, event: LogEvent<'_>)
        ensures kept { HasKept self.old.events.events.items self.new.events.events.items when.moment (is_refusal event.entry)
            (put [] (event_text event.entry)) }
        ensures out { self.new.out ≡ self.old.out }
        ensures pace { self.new.pace ≡ self.old.pace }
    {
        let line = event_line(event);
        self.events
            .push(when.moment, is_refusal(event), line.as_slice());
    }

    // Writes a line, whatever the limit. If there is no room for it, the lines that it stands for are counted.
    #[tactic(auto, using(crate::proofs::Logging::refused_so))]
    fn write(&mut self, when: When, event: LogEvent<'_>)
        ensures wrote { Wrote (W.contents self.old.out.out) (W.contents self.new.out.out) self.old.pace self.new.pace (line_at when (said event.entry)) }
        ensures kept { HasKept self.old.events.events.items self.new.events.events.items when.moment (is_refusal event.entry)
            (put [] (event_text event.entry)) }
        ensures refused { HasRefused self.old.out.refused self.new.out.refused (lines_of event.entry) }
        ensures grows { self.old.out.refused ≤ self.new.out.refused }
        ensures given { self.new.out.given ≡ most (self.old.out.given + 1) }
        ensures flushes { self.new.out.flushes ≡ self.old.out.flushes }
    {
        self.keep(when, event);
        if self.out.write(when, event).is_err() {
            self.pace.is_whole = false;
        }
    }

    // Writes how many lines were left out, if some were.
    fn append_left_out(&mut self, when: When, count: u64)
        ensures wrote { Wrote (W.contents self.old.out.out) (W.contents self.new.out.out) self.old.pace self.new.pace (left_out_text when count) }
        ensures none { count ≡ 0 → self.new.out.refused ≡ self.old.out.refused }
        ensures refused { HasRefused self.old.out.refused self.new.out.refused count }
        ensures grows { self.old.out.refused ≤ self.new.out.refused }
        ensures given { self.new.out.given ≡ given_some count self.old.out.given }
        ensures flushes { self.new.out.flushes ≡ self.old.out.flushes }
        ensures kept { HasKeptIf (nat_lt 0 count) self.old.events.events.items self.new.events.events.items when.moment true
            (put [] (event_text (LeftOut count))) }
    {
        if count > 0 {
            self.write(when, LogEvent::LeftOut { count });
        }
    }

    // Writes the line of an event if it is to be written.
    fn write_if(&mut self, is_written: bool, when: When, event: LogEvent<'_>)
        ensures wrote { Wrote (W.contents self.old.out.out) (W.contents self.new.out.out) self.old.pace self.new.pace
            (line_if is_written when (said event.entry)) }
        ensures refused { HasRefused self.old.out.refused self.new.out.refused (lines_of event.entry) }
        ensures grows { self.old.out.refused ≤ self.new.out.refused }
        ensures given { self.new.out.given ≡ given_if is_written self.old.out.given }
        ensures kept { HasKeptIf is_written self.old.events.events.items self.new.events.events.items when.moment (is_refusal event.entry)
            (put [] (event_text event.entry)) }
    {
        if is_written {
            self.write(when, event);
        }
    }

    /// Writes the line of an event if its second has room for one of its kind, and counts it otherwise.
    pub fn append(&mut self, when: When, kind: LineKind, event: LogEvent<'_>)
        ensures logged { Logged (W.contents self.old.out.out) (W.contents self.new.out.out) self.old.pace self.new.pace
            (Offered when kind (said event.entry) ∷ []) }
        ensures events { AreKept self.old.events.events.items self.new.events.events.items }
        ensures lines { (s : LogState) → HasState self.old.pace s
            → HasKeptOf s (Offered when kind (said event.entry)) self.old.events.events.items self.new.events.events.items }
        ensures grows { self.old.out.refused ≤ self.new.out.refused }
        ensures given { (s : LogState) → HasState self.old.pace s → self.new.out.given ≡ given_by s (Offered when kind (said event.entry)) self.old.out.given }
    {
        let allowed = self.pace.shares.line(kind, when.moment);
        self.append_left_out(when, allowed.left_out);
        self.write_if(allowed.written, when, event);
    }

    /// Writes the line of an event whether its second has room or not. For events that happen once in a run, or at most
    /// twice a second.
    pub fn append_always(&mut self, when: When, event: LogEvent<'_>)
        ensures logged { Logged (W.contents self.old.out.out) (W.contents self.new.out.out) self.old.pace self.new.pace (Always when (said event.entry) ∷ []) }
        ensures events { AreKept self.old.events.events.items self.new.events.events.items }
        ensures lines { (s : LogState) → HasState self.old.pace s
            → HasKeptOf s (Always when (said event.entry)) self.old.events.events.items self.new.events.events.items }
        ensures grows { self.old.out.refused ≤ self.new.out.refused }
        ensures given { (s : LogState) → HasState self.old.pace s → self.new.out.given ≡ given_by s (Always when (said event.entry)) self.old.out.given }
    {
        self.end_second(when);
        self.write(when, event);
    }

    /// Writes how many lines the last second left out, once, after its end.
    pub fn end_second(&mut self, when: When)
        ensures logged { Logged (W.contents self.old.out.out) (W.contents self.new.out.out) self.old.pace self.new.pace (Polled when ∷ []) }
        ensures events { AreKept self.old.events.events.items self.new.events.events.items }
        ensures lines { (s : LogState) → HasState self.old.pace s → HasKeptOf s (Polled when) self.old.events.events.items self.new.events.events.items }
        ensures grows { self.old.out.refused ≤ self.new.out.refused }
        ensures given { (s : LogState) → HasState self.old.pace s → self.new.out.given ≡ given_by s (Polled when) self.old.out.given }
    {
        let count = self.pace.shares.poll(when.moment);
        let missed = self.pace.missed_by(when.moment);
        self.append_left_out(when, count.saturating_add(missed));
    }

    // Lets the writer write what waits in it, and then writes how many lines it had no room for, if some were and there
    // is room again. Returns evidence if all is out: nothing waits in the writer, and it has had no line without room since the
    // last such number.
    fn catch_up(&mut self, when: When) -> Option<Flushed>
        ensures logged { Logged (W.contents self.old.out.out) (W.contents self.new.out.out) self.old.pace self.new.pace [] }
        ensures told { IfSome result (λ _. (self.old.out.refused ≡ 0) × (self.new.out.refused ≡ 0)) }
        ensures refused { HasRefused 0 self.new.out.refused self.old.out.refused }
        ensures given { self.new.out.given ≡ given_some self.old.out.refused self.old.out.given }
        ensures flushes { self.new.out.flushes ≡ most (self.old.out.flushes + 1) }
        ensures kept { HasKeptIf (nat_lt 0 self.old.out.refused) self.old.events.events.items self.new.events.events.items when.moment true
            (put [] (event_text (LeftOut self.old.out.refused))) }
    {
        let flushed = self.out.flush();
        let count = self.out.take_refused();
        self.append_left_out(when, count);
        if count == 0 { flushed } else { None }
    }

    /// Lets the writer write what waits in it, and then writes how many lines it had no room for, if some were. In each turn.
    pub fn look(&mut self, when: When)
        ensures logged { Logged (W.contents self.old.out.out) (W.contents self.new.out.out) self.old.pace self.new.pace (Looked ∷ []) }
        ensures refused { HasRefused 0 self.new.out.refused self.old.out.refused }
        ensures given { self.new.out.given ≡ given_some self.old.out.refused self.old.out.given }
        ensures flushes { self.new.out.flushes ≡ most (self.old.out.flushes + 1) }
        ensures kept { HasKeptIf (nat_lt 0 self.old.out.refused) self.old.events.events.items self.new.events.events.items when.moment true
            (put [] (event_text (LeftOut self.old.out.refused))) }
    {
        self.catch_up(when);
        self.pace.looks = self.pace.looks.saturating_add(1);
    }

    /// Rests until all is out, or until the time `ends` of the routes' clock.
    #[tactic(auto, using(crate::proofs::Logging::logged_nothing, crate::proofs::Logging::logged_no_more, crate::proofs::Kept::same, crate::proofs::Kept::more))]
    pub fn drain<M: Machine>(&mut self, machine: &mut M, when: When, ends: u64) -> Drained
        ensures logged { Logged (W.contents self.old.out.out) (W.contents self.new.out.out) self.old.pace self.new.pace [] }
        ensures events { AreKept self.old.events.events.items self.new.events.events.items }
        ensures machine { M.says machine.new ≡ M.says machine.old }
        ensures drained { IsDrained M.facts ends self.new.out.refused result }
    {
        let mut rests = Rests::none();
        while rests.rests() < MAX_RESTS {
            if let Some(flushed) = self.catch_up(when) {
                return Drained::All(flushed);
            }
            let moment = machine.moment();
            if moment >= ends {
                return Drained::Over(moment);
            }
            rests.rest(machine);
        }
        Drained::Rested(rests)
    }

    /// Writes how many lines the current second has left out so far, at the end of the log.
    pub fn end(&mut self, when: When)
        ensures logged { Logged (W.contents self.old.out.out) (W.contents self.new.out.out) self.old.pace self.new.pace (Closed when ∷ []) }
        ensures events { AreKept self.old.events.events.items self.new.events.events.items }
        ensures lines { (s : LogState) → HasState self.old.pace s → HasKeptOf s (Closed when) self.old.events.events.items self.new.events.events.items }
        ensures grows { self.old.out.refused ≤ self.new.out.refused }
        ensures given { (s : LogState) → HasState self.old.pace s → self.new.out.given ≡ given_by s (Closed when) self.old.out.given }
    {
        self.end_second(when);
        let missed = mem::replace(&mut self.pace.missed, 0);
        let left_out = self.pace.shares.left_out();
        self.append_left_out(when, left_out.saturating_add(missed));
    }

    /// Ends the log: writes how many lines the current second has left out so far, then, once what waits is out, the last
    /// line, and rests until that is out too; for a second at most.
    pub fn close<M: Machine>(&mut self, machine: &mut M, when: When)
        ensures logged { Logged (W.contents self.old.out.out) (W.contents self.new.out.out) self.old.pace self.new.pace
            (Closed when ∷ Always when (said Stopped) ∷ []) }
        ensures events { AreKept self.old.events.events.items self.new.events.events.items }
        ensures machine { M.says machine.new ≡ M.says machine.old }
        ensures closed { HasClosed M.facts (most (when.moment + 1_000_000)) self.new.out.refused self.new.closing }
    {
        let ends = when.moment.saturating_add(SECOND);
        self.end(when);
        let first = self.drain(machine, when, ends);
        self.append_always(when, LogEvent::Stopped);
        let last = self.drain(machine, when, ends);
        self.closing = Some(Closing { first, last });
    }
}

#[cfg(test)]
impl LogWriter<Vec<u8>> {
    /// Returns what was written.
    pub(crate) fn written(&self) -> &[u8] {
        self.out.out.as_slice()
    }

    /// Forgets what was written.
    pub(crate) fn clear(&mut self) {
        self.out.out.clear();
    }
}

#[cfg(test)]
mod tests;
