//! The state that a session keeps of its events: acknowledgements, round trips and the times of its last packets.
//! Which NAK is due is in `nak.rt`, and whether a KEEPALIVE is due in `keep_alive.rt`.

ghost use Rattle.std.specs.Prelude.{◌≡◌, ℕ, ◌+◌, ◌-◌, ◌^◌, ◌<◌, ◌≤◌, [], ◌∷◌, IfOk, IfSome, option_map, true, false};
ghost use Rattle.srt_types.specs.Given.{given};
ghost use Rattle.srt_packet.specs.Text.{IsWritable};
ghost use Rattle.srt_types.specs.declared.shared.Mode.TheVariants.{Live as TheLive};
ghost use Rattle.srt_types.specs.declared.shared.Callers.TheVariants.{Draft as TheDraft};
ghost use Rattle.srt_pub.specs.Publishing.{Terms, Arrived, clock_of, confirmed_by, confirmed_notes, correction_of, rating};
ghost use Rattle.srt_timing.specs.Clock.{IsSlow, sampled};
ghost use Rattle.srt_timing.specs.declared.drift_windows.Clock.{Clock};
ghost use Rattle.srt_pub.specs.Kept.{clock_in};
ghost use Rattle.srt_pub.specs.declared.region.Region.{Region};
ghost use Rattle.srt_pub.specs.Calls.{listed};

use crate::acknowledgements::{Acks, State};
use crate::rates::{Meter, Rating};
use srt_packet::Body;
use srt_recvbuf::Put;
use srt_timing::{Drift, SampledRtt};
use srt_types::{Callers, Mode, Stamp32};
use std::alloc::{AllocError, Global};

/// The state that a session keeps of its events. All times are microseconds since the opening. At the opening, the
/// times of the last NAK, the last packet sent and the last data packet are 0.
#[derive(Drop)]
pub struct Log {
    /// The ACKs that were sent, and whether one is due.
    pub acks: Acks,
    /// The smoothed round-trip time and its variance (section 4.10).
    pub rtt: SampledRtt,
    /// Times of the last new data packets.
    pub meter: Meter,
    /// Time of the last unencrypted data packet.
    pub arrived: u64,
    /// Time of the last NAK of all gaps.
    pub nak: u64,
    /// Time of the last ACK, NAK or KEEPALIVE.
    pub sent: u64,
    /// Distance from the front to the end of the received numbers, in packets, at the end of the last event. A NAK of
    /// new gaps starts there.
    pub seen: u32,
    /// Drift of the sender's clock; None if it isn't followed (section 4.7).
    pub drift: Option<Drift>,
}

impl Log {
    ghost use Rattle.srt_pub.specs.Kept.{LogStandsFor};
    ghost use Rattle.srt_pub.specs.inside.Noting.{LogBecomes, LogHoldsOf, LogMoves, LogNotesAck, LogSees, LogWritesAck, ReportsFullWindow};

    /// Allocates the log of a session without events. The only call that allocates; the error is a failed allocation.
    pub fn open(alloc: Global) -> Result<Log, AllocError>
        ensures { IfOk result (λ log. (terms : Terms) → terms.mode ≡ TheLive → terms.callers ≡ TheDraft → LogStandsFor terms 0 0 log [] 0) }
    {
        Ok(Log {
            acks: Acks::open(alloc)?,
            rtt: SampledRtt::start(Callers::Draft),
            meter: Meter::open(alloc)?,
            arrived: 0,
            nak: 0,
            sent: 0,
            seen: 0,
            drift: None,
        })
    }

    /// Discards everything, as at an opening in this mode, with callers that follow these rules.
    pub fn reset(&mut self, mode: Mode, callers: Callers)
        ensures { (terms : Terms) → terms.mode ≡ mode → terms.callers ≡ callers → LogStandsFor terms 0 0 self.new [] 0 }
    {
        self.acks.clear();
        self.rtt = SampledRtt::start(callers);
        self.meter.start(rating(mode, callers));
        self.arrived = 0;
        self.nak = 0;
        self.sent = 0;
        self.seen = 0;
        self.drift = drift_at_first(mode, callers);
    }

    /// Records the arrival of an unencrypted data packet at a time; `put` is the buffer's result for it.
    pub fn note_data(&mut self, put: Put, time: u64)
        ensures { (region : Region) → LogBecomes self.old self.new (λ notes. Arrived time region put ∷ notes) }
    {
        self.acks.arrived();
        self.meter.come(put, time);
        self.arrived = time;
    }

    /// Records that the front and the acknowledgement point moved on by these numbers of packets.
    pub fn moves(&mut self, front_steps: u32, point_steps: u32)
        ensures { LogMoves front_steps point_steps self.old self.new }
    {
        self.acks.moves(front_steps, point_steps);
        self.seen = self.seen.saturating_sub(front_steps);
    }

    /// Records an ACKACK with this number and this timestamp, relative to the conclusion's. If it confirms one of the
    /// last 64 Full ACKs for the first time, it yields a sample of the round-trip time and of the sender's clock (section
    /// 3.2.8).
    pub fn confirm(&mut self, number: u32, time: u64, stamp: Stamp32)
        requires { time < 2 ^ 62 }
        ensures { LogBecomes self.old self.new (λ notes. confirmed_notes time stamp.word (confirmed_by number notes) notes) }
    {
        if let Some(round_trip) = self.acks.confirm(number, time) {
            self.drift = with_sample(self.drift, time, stamp, round_trip);
            self.rtt.sample(round_trip);
        }
    }

    /// Returns by how much the sender's clock is slow since the opening, in microseconds; negative if it is fast. None if
    /// it isn't followed.
    pub fn followed_correction(&self) -> Option<i64>
        ensures value { LogHoldsOf self.now (λ terms notes. result ≡ option_map (λ (c : Clock). c.correction) (clock_of terms notes)) }
        ensures slow { IfSome result (λ c. IsSlow c (2 ^ 62)) }
    {
        match self.drift {
            Some(drift) => Some(drift.correction()),
            None => None,
        }
    }

    /// Returns the same correction; 0 if the clock isn't followed.
    pub fn correction(&self) -> i64
        ensures value { LogHoldsOf self.now (λ terms notes. result ≡ correction_of terms notes) }
        ensures slow { IsSlow result (2 ^ 62) }
    {
        match self.drift {
            Some(drift) => drift.correction(),
            None => 0,
        }
    }

    /// Writes the body of the ACK that is due, Full or Light. Returns whether one is due; if not, `body` is unchanged.
    pub fn ack(&mut self, time: u64, state: State, body: &mut Body<'_>) -> bool
        ensures stands { LogNotesAck time state.available self.old self.new }
        ensures bytes { LogWritesAck time state.point state.available self.old (listed (given result body.new)) }
        ensures writable { result ≡ true → IsWritable body.new }
        ensures kept { result ≡ false → body.new ≡ body.old }
    {
        if self
            .acks
            .report(time, state, self.rtt.values(), &self.meter, body)
        {
            self.sent = time;
            return true;
        }
        false
    }

    /// Whether a Full ACK is due that reports no available place.
    pub fn is_window_full(&self, time: u64, available: u32) -> bool
        ensures { ReportsFullWindow time available self.now result }
    {
        if available != 0 {
            return false;
        }
        self.acks.is_full_due(time)
    }

    /// Records the end of an event, at which the received numbers end `seen` packets past the front.
    pub fn see(&mut self, seen: u32)
        ensures { LogSees seen self.old self.new }
    {
        self.seen = seen;
    }
}

/// Whether a session measures packet rates: only in buffer mode, with callers that use libsrt.
fn rating(mode: Mode, callers: Callers) -> Rating
    ensures { result ≡ rating mode callers }
{
    match mode {
        Mode::Live => Rating::Unmeasured,
        Mode::Buffer => match callers {
            Callers::Draft => Rating::Unmeasured,
            Callers::Libsrt => Rating::Measured,
        },
    }
}

/// Returns the drift of a sender's clock before its first sample; None if it isn't followed. It is followed only in live
/// mode, with callers that use libsrt.
fn drift_at_first(mode: Mode, callers: Callers) -> Option<Drift>
    ensures { (terms : Terms) → terms.mode ≡ mode → terms.callers ≡ callers → clock_in result ≡ clock_of terms [] }
{
    match mode {
        Mode::Buffer => None,
        Mode::Live => match callers {
            Callers::Draft => None,
            Callers::Libsrt => Some(Drift::none()),
        },
    }
}

/// Returns the drift after a sample, if the clock is followed.
fn with_sample(drift: Option<Drift>, time: u64, stamp: Stamp32, round_trip: u64) -> Option<Drift>
    requires early { time < 2 ^ 62 }
    requires short { round_trip ≤ 10_000_000 }
    ensures { clock_in result ≡ option_map (sampled (record { time = time; stamp = stamp.word; round_trip = round_trip })) (clock_in drift) }
{
    match drift {
        None => None,
        Some(mut followed) => {
            followed.sample(time, stamp, round_trip);
            Some(followed)
        }
    }
}
