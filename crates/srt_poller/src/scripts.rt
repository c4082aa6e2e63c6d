//! Devices in memory, for tests: they follow a script, and record their datagrams.

ghost use Rattle.std.specs.Prelude.{◌≡◌, ◌≢◌, ◌⊎◌, ℕ, ◌<◌, ◌≤◌, ◌+◌, ◌-◌, ◌^◌, Some, true, false, [], ◌∷◌, ◌++◌};
ghost use Rattle.std.specs.Prelude.{OnOk, OnErr, option_copied, length, map, min, slice_get, take};
ghost use Rattle.srt_poller.specs.Notes.{outcome};

use crate::devices::{Clock, Polled, Read, Sent, Source, Wire};
use crate::memory::{MemoryRefused, Refusals, copied, push};
use srt_journal::Journal;
use srt_types::Peer;
use srt_types::protocol_limits::READ_ROOM;
use std::alloc::Global;

/// A datagram of a source in memory.
#[derive(Debug, Drop)]
pub struct ScriptDatagram {
    /// The sender.
    pub peer: Peer,
    /// The bytes, of which a read gives the first 2048.
    pub bytes: Vec<u8>,
    /// When it comes, in microseconds. From 2^62 on it is given as 2^62 - 1.
    pub moment: u64,
}

impl ScriptDatagram {
    /// Copies at most 2048 bytes, the first, to the front of the buffer, and returns their number.
    fn copy_to(&self, buffer: &mut [u8; READ_ROOM]) -> usize
        ensures len { result ≡ min (length self.now.bytes.items) 2048 }
        ensures bytes { take result buffer.new ≡ take 2048 self.now.bytes.items }
    {
        let bytes = self.bytes.as_slice();
        let len = bytes.len().min(READ_ROOM);
        buffer[..len].copy_from_slice(&bytes[..len]);
        len
    }
}

/// What a source in memory does in one call.
#[derive(Debug, Drop)]
pub enum SourceStep {
    /// A wait ends.
    Wait,
    /// A wait fails.
    WaitFails,
    /// A read gives this datagram.
    Datagram(ScriptDatagram),
    /// A read finds nothing.
    Empty,
    /// A read fails.
    ReadFails,
}

/// A source in memory. A wait does the next step if that is `Wait` or `WaitFails`, and a read does it if it is another.
/// Otherwise, or if no step is left, the wait returns `Ready`, the read returns `Empty`, and the step stays.
#[derive(Drop)]
pub struct SourceScript {
    steps: Vec<SourceStep>,
    at: usize,
    failures: u64,
    // its waits and reads
    journal: Journal,
}

// Which call of a source a note is of.
const WAITED: u64 = 0;

const FAILED_TO_WAIT: u64 = 1;

const GAVE: u64 = 2;

const GAVE_NOTHING: u64 = 3;

const FAILED_TO_READ: u64 = 4;

impl SourceScript {
    ghost use Rattle.srt_poller.specs.Scripts.{steps_of, steps_done};

    /// A source that does these steps, in order.
    pub fn new(steps: Vec<SourceStep>) -> SourceScript
        ensures steps { steps_of result ≡ steps.items }
        ensures done { steps_done result ≡ 0 }
        ensures records { ⟦<SourceScript as Source>⟧.gave result ≡ Some [] }
        ensures called { ⟦<SourceScript as Source>⟧.calls result ≡ Some [] }
        ensures failures { ⟦<SourceScript as Source>⟧.failures result ≡ 0 }
    {
        SourceScript {
            steps,
            at: 0,
            failures: 0,
            journal: Journal::new(),
        }
    }

    /// The next step, if there is one.
    fn step(&self) -> Option<&SourceStep>
        ensures { option_copied result ≡ slice_get self.now.steps.items self.now.at }
    {
        self.steps.as_slice().get(self.at)
    }
}

impl Source for SourceScript {
    ghost use Rattle.std.specs.Prelude.{Some, [], ◌∷◌, map, take};
    ghost use Rattle.srt_mailbox.specs.Counts.{Grew};
    ghost use Rattle.srt_poller.specs.Devices.{ReadsWell, given_by_read, call_of_wait, call_of_read, joined};
    ghost use Rattle.srt_journal.specs.Notes.{oldest_first};
    ghost use Rattle.srt_poller.specs.Notes.{call_of};
    ghost use Rattle.srt_poller.specs.Failures.{failures_after_wait, failures_after_read};
    ghost use Rattle.srt_poller.specs.declared.devices.Polled.TheVariants.{Failed as PollFailed};
    ghost use Rattle.srt_poller.specs.Scripts.{given_in, next_step, wait_at, read_at, after_wait, after_read, steps_of, steps_done};

    ghost failures = { λ s. s.failures };

    ghost gave = { λ s. Some (given_in (take s.at s.steps.items)) };

    ghost calls = { λ s. Some (map call_of (oldest_first s.journal.notes)) };

    fn wait(&mut self) -> Polled
        ensures failed { result ≡ PollFailed → Grew self.old.failures self.new.failures }
        ensures records { ⟦<SourceScript as Source>⟧.gave self.new ≡ ⟦<SourceScript as Source>⟧.gave self.old }
        ensures called { ⟦<SourceScript as Source>⟧.calls self.new ≡
            joined (⟦<SourceScript as Source>⟧.calls self.old) (call_of_wait result ∷ []) }
        ensures does { result ≡ wait_at (next_step self.old) }
        ensures done { steps_done self.new ≡ after_wait (next_step self.old) (steps_done self.old) }
        ensures steps { steps_of self.new ≡ steps_of self.old }
        ensures counts { self.new.failures ≡ failures_after_wait result self.old.failures }
    {
        match self.step() {
            Some(SourceStep::WaitFails) => {
                self.at += 1;
                self.failures = self.failures.saturating_add(1);
                self.journal.note(&[FAILED_TO_WAIT], &[], &[]);
                Polled::Failed
            }
            Some(SourceStep::Wait) => {
                self.at += 1;
                self.journal.note(&[WAITED], &[], &[]);
                Polled::Ready
            }
            _ => {
                self.journal.note(&[WAITED], &[], &[]);
                Polled::Ready
            }
        }
    }

    fn next(&mut self, buffer: &mut [u8; READ_ROOM]) -> Read
        ensures well { ReadsWell result self.old.failures self.new.failures }
        ensures records { ⟦<SourceScript as Source>⟧.gave self.new ≡
            joined (⟦<SourceScript as Source>⟧.gave self.old) (given_by_read result buffer.new) }
        ensures called { ⟦<SourceScript as Source>⟧.calls self.new ≡
            joined (⟦<SourceScript as Source>⟧.calls self.old) (call_of_read result buffer.new ∷ []) }
        ensures does { result ≡ read_at (next_step self.old) }
        ensures done { steps_done self.new ≡ after_read (next_step self.old) (steps_done self.old) }
        ensures steps { steps_of self.new ≡ steps_of self.old }
        ensures counts { self.new.failures ≡ failures_after_read result self.old.failures }
    {
        match self.step() {
            Some(SourceStep::Datagram(datagram)) => {
                let len = datagram.copy_to(buffer);
                let moment = datagram.moment.min((1 << 62) - 1);
                let peer = datagram.peer;
                let port = datagram.peer.port;
                self.at += 1;
                self.journal
                    .note(&[GAVE, u64::from(port), moment], &peer.ip, &buffer[..len]);
                Read::Datagram(peer, len, moment)
            }
            Some(SourceStep::Empty) => {
                self.at += 1;
                self.journal.note(&[GAVE_NOTHING], &[], &[]);
                Read::Empty
            }
            Some(SourceStep::ReadFails) => {
                self.at += 1;
                self.failures = self.failures.saturating_add(1);
                self.journal.note(&[FAILED_TO_READ], &[], &[]);
                Read::Failed
            }
            Some(SourceStep::Wait) | Some(SourceStep::WaitFails) | None => {
                self.journal.note(&[GAVE_NOTHING], &[], &[]);
                Read::Empty
            }
        }
    }

    fn failures(&self) -> u64 {
        self.failures
    }
}

/// A datagram of a send that returned `Taken` or `Failed`, as a wire in memory recorded it.
#[derive(Debug, Drop)]
pub struct SentDatagram {
    /// The receiver.
    pub to: Peer,
    /// All its bytes.
    pub bytes: Vec<u8>,
}

/// A wire in memory. Its sends return the outcomes of its script in turn, and `Taken` after those. A datagram whose
/// outcome is `Taken` or `Failed` is copied, which allocates; if memory is refused, the send returns `Later`.
#[derive(Drop)]
pub struct WireScript {
    alloc: Global,
    answers: Vec<Sent>,
    at: usize,
    handed: Vec<SentDatagram>,
    failures: u64,
    // for contracts alone
    refusals: Refusals,
    // its sends
    journal: Journal,
}

impl WireScript {
    ghost use Rattle.srt_mailbox.specs.Counts.{Grew};
    ghost use Rattle.srt_poller.specs.Devices.{datagram, handed_by_send, joined};
    ghost use Rattle.srt_poller.specs.declared.devices.Sent.TheVariants.{Later, Failed as SendFailed};
    ghost use Rattle.srt_poller.specs.Scripts.{sent_as, answer_at, next_answer, answers_of, answers_given, given_after, refusals_of};
    ghost use Rattle.srt_poller.specs.Failures.{failures_after_send};

    /// A wire whose sends return these outcomes, in order.
    pub fn new(alloc: Global, answers: Vec<Sent>) -> WireScript
        ensures answers { answers_of result ≡ answers.items }
        ensures given { answers_given result ≡ 0 }
        ensures records { ⟦<WireScript as Wire>⟧.handed result ≡ Some [] }
        ensures attempted { ⟦<WireScript as Wire>⟧.attempts result ≡ Some [] }
        ensures failures { ⟦<WireScript as Wire>⟧.failures result ≡ 0 }
        ensures refusals { refusals_of result ≡ 0 }
    {
        WireScript {
            alloc,
            answers,
            at: 0,
            handed: Vec::new(alloc),
            failures: 0,
            refusals: Refusals::new(),
            journal: Journal::new(),
        }
    }

    /// The datagrams of the sends that returned `Taken` or `Failed`, the oldest first.
    pub fn handed(&self) -> &[SentDatagram]
        ensures { Some (map sent_as result.now) ≡ ⟦<WireScript as Wire>⟧.handed self.now }
    {
        self.handed.as_slice()
    }

    /// The next outcome of the script.
    fn answer(&mut self) -> Sent
        ensures answer { result ≡ answer_at (slice_get self.old.answers.items self.old.at) }
        ensures given { answers_given self.new ≡ given_after self.old }
        ensures answers { answers_of self.new ≡ answers_of self.old }
        ensures handed { self.new.handed ≡ self.old.handed }
        ensures refusals { self.new.refusals ≡ self.old.refusals }
        ensures failures { self.new.failures ≡ self.old.failures }
        ensures journal { self.new.journal ≡ self.old.journal }
    {
        match self.answers.get(self.at) {
            Some(sent) => {
                let sent = *sent;
                self.at += 1;
                sent
            }
            None => Sent::Taken,
        }
    }

    /// Records a datagram. If the memory for its copy is refused, nothing is recorded.
    fn note(&mut self, to: Peer, bytes: &[u8]) -> Result<(), MemoryRefused>
        ensures noted { OnOk result (map sent_as self.new.handed.items ≡ map sent_as self.old.handed.items ++ datagram to bytes.now ∷ []) }
        ensures refused { OnErr result (self.new.handed.items ≡ self.old.handed.items) }
        ensures answers { (self.new.answers ≡ self.old.answers) × (self.new.at ≡ self.old.at) }
        ensures failures { self.new.failures ≡ self.old.failures }
        ensures refusals { self.new.refusals ≡ self.old.refusals }
        ensures journal { self.new.journal ≡ self.old.journal }
    {
        let bytes = copied(self.alloc, bytes)?;
        push(&mut self.handed, SentDatagram { to, bytes })
    }

    /// Does what the script says for a send. It differs only if memory was refused, which is noted.
    fn act(&mut self, to: Peer, bytes: &[u8]) -> Sent
        ensures failed { result ≡ SendFailed → Grew self.old.failures self.new.failures }
        ensures records { ⟦<WireScript as Wire>⟧.handed self.new ≡
            joined (⟦<WireScript as Wire>⟧.handed self.old) (handed_by_send result (datagram to bytes.now)) }
        ensures does { (result ≡ Later) ⊎ (result ≡ next_answer self.old) }
        ensures refused { result ≢ next_answer self.old → refusals_of self.new ≡ refusals_of self.old + 1 }
        ensures given { answers_given self.new ≡ given_after self.old }
        ensures answers { answers_of self.new ≡ answers_of self.old }
        ensures counts { self.new.failures ≡ failures_after_send result self.old.failures }
        ensures journal { self.new.journal ≡ self.old.journal }
    {
        let sent = self.answer();
        if sent == Sent::Later {
            return Sent::Later;
        }
        if let Err(refused) = self.note(to, bytes) {
            self.refusals.note(refused);
            return Sent::Later;
        }
        if sent == Sent::Failed {
            self.failures = self.failures.saturating_add(1);
        }
        sent
    }
}

// The number of an outcome in a note.
fn number_of(sent: Sent) -> u64
    ensures { outcome result ≡ sent }
{
    match sent {
        Sent::Taken => 0,
        Sent::Later => 1,
        Sent::Failed => 2,
    }
}

impl Wire for WireScript {
    ghost use Rattle.std.specs.Prelude.{Some, [], ◌∷◌, map};
    ghost use Rattle.srt_mailbox.specs.Counts.{Grew};
    ghost use Rattle.srt_poller.specs.Devices.{datagram, handed_by_send, attempt, joined};
    ghost use Rattle.srt_journal.specs.Notes.{oldest_first};
    ghost use Rattle.srt_poller.specs.Notes.{attempt_of};
    ghost use Rattle.srt_poller.specs.declared.devices.Sent.TheVariants.{Later, Failed as SendFailed};
    ghost use Rattle.srt_poller.specs.Scripts.{sent_as, next_answer, answers_of, answers_given, given_after, refusals_of};
    ghost use Rattle.srt_poller.specs.Failures.{failures_after_send};

    ghost failures = { λ w. w.failures };

    ghost handed = { λ w. Some (map sent_as w.handed.items) };

    ghost attempts = { λ w. Some (map attempt_of (oldest_first w.journal.notes)) };

    fn send(&mut self, to: Peer, bytes: &[u8]) -> Sent
        ensures failed { result ≡ SendFailed → Grew self.old.failures self.new.failures }
        ensures records { ⟦<WireScript as Wire>⟧.handed self.new ≡
            joined (⟦<WireScript as Wire>⟧.handed self.old) (handed_by_send result (datagram to bytes.now)) }
        ensures attempted { ⟦<WireScript as Wire>⟧.attempts self.new ≡
            joined (⟦<WireScript as Wire>⟧.attempts self.old) (attempt (datagram to bytes.now) result ∷ []) }
        ensures does { (result ≡ Later) ⊎ (result ≡ next_answer self.old) }
        ensures refused { result ≢ next_answer self.old → refusals_of self.new ≡ refusals_of self.old + 1 }
        ensures given { answers_given self.new ≡ given_after self.old }
        ensures answers { answers_of self.new ≡ answers_of self.old }
        ensures counts { self.new.failures ≡ failures_after_send result self.old.failures }
    {
        let sent = self.act(to, bytes);
        self.journal
            .note(&[to.port as u64, number_of(sent)], &to.ip, bytes);
        sent
    }

    fn failures(&self) -> u64 {
        self.failures
    }
}

/// A clock in memory. It gives its moments in turn, then the last one again and again; with no moments it gives 0.
#[derive(Drop)]
pub struct ClockScript {
    moments: Vec<u64>,
    at: usize,
}

impl ClockScript {
    ghost use Rattle.srt_poller.specs.Scripts.{moments_of, moments_given};

    /// A clock that gives these moments, in microseconds. From 2^62 on they are given as 2^62 - 1.
    pub fn new(moments: Vec<u64>) -> ClockScript
        ensures moments { moments_of result ≡ moments.items }
        ensures given { moments_given result ≡ 0 }
    {
        ClockScript { moments, at: 0 }
    }
}

impl Clock for ClockScript {
    ghost use Rattle.srt_poller.specs.Scripts.{moment_at, moment_after, moments_of, moments_given};

    fn next(&mut self) -> u64
        ensures limit { result < 2 ^ 62 }
        ensures returned { ⟦<ClockScript as Clock>⟧.returned self.old self.new result }
        ensures does { result ≡ moment_at (moments_of self.old) (moments_given self.old) }
        ensures moments { moments_of self.new ≡ moments_of self.old }
        ensures given { moments_given self.new ≡ moment_after (length (moments_of self.old)) (moments_given self.old) }
    {
        let Some(moment) = self.moments.get(self.at) else {
            return 0;
        };
        let moment = (*moment).min((1 << 62) - 1);
        if self.at + 1 < self.moments.len() {
            self.at += 1;
            return moment;
        }
        moment
    }
}
