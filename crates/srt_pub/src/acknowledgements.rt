//! Full ACKs, Light ACKs and their confirmation (draft-sharabayko-srt-01, sections 3.2.4, 3.2.8 and 4.8.1).

ghost use Rattle.std.specs.Prelude.{◌≡◌, ℕ, ◌+◌, ◌-◌, ◌≤◌, ◌==◌, [], ◌∷◌, nat_lt, ◌||◌, ◌&&◌, true, false, Option, option_map, IfOk, IfSome};
ghost use Rattle.srt_types.specs.Given.{given};
ghost use Rattle.srt_packet.specs.Text.{IsWritable};
ghost use Rattle.srt_pub.specs.Publishing.{Arrived, confirmed_by, confirmed_notes, sample_of, is_full_due, is_light_due, noted};
ghost use Rattle.srt_pub.specs.Publishing.Report.{LightAck as TheLightAck};
ghost use Rattle.srt_pub.specs.declared.region.Region.{Region};
ghost use Rattle.srt_recvbuf.specs.declared.buffer.Put.{Put};
ghost use Rattle.srt_pub.specs.Calls.{listed};

use crate::rates::Meter;
use srt_packet::{Body, Rates};
use srt_timing::{AckBook, Rtt};
use srt_types::Seq31;
use srt_types::protocol_limits::{FULL_ACK_INTERVAL_US, FULL_ACKS_KEPT, LIGHT_ACK_PACKETS};
use std::alloc::{AllocError, Global};

/// The pair that a Full ACK reports.
#[derive(Clone, Copy)]
pub struct State {
    /// The acknowledgement point.
    pub point: Seq31,
    /// The available buffer size: the number of packets from the acknowledgement point on for which there is room.
    pub available: u32,
}

/// The Full ACKs that were sent, and whether the current pair of acknowledgement point and available buffer size is
/// confirmed.
///
/// The acknowledgement point and the window's end never decrease. So a Full ACK that reported another pair can never
/// match the current one again, and it is enough to count the Full ACKs since the pair last changed. Times are
/// microseconds since the opening.
#[derive(Drop)]
pub struct Acks {
    book: AckBook,
    /// Whether the current pair is confirmed: the latest confirmed Full ACK reported it, or the opening if there is
    /// none.
    known: bool,
    /// Number of newest Full ACKs that reported the current pair; stops at 64.
    same: usize,
    /// Time of the last Full ACK; 0 at first.
    last: u64,
    /// Number of data packets since the last ACK of either kind; stops at 64.
    arrived: u32,
}

impl Acks {
    ghost use Rattle.srt_pub.specs.Kept.{AcksStandFor};
    ghost use Rattle.srt_pub.specs.inside.Noting.{AcksBecome, AcksHoldOf, AcksMove, CountsAcks, NotesAck, NotesFullAck, WritesAck};
    ghost use Rattle.srt_pub.specs.inside.Noting.{WritesFullAck, WritesLightAck};

    /// Allocates the state before the first ACK. The only call that allocates; the error is a failed allocation.
    pub fn open(alloc: Global) -> Result<Acks, AllocError>
        ensures { IfOk result (λ a. (width : ℕ) → AcksStandFor width 0 0 a []) }
    {
        Ok(Acks {
            book: AckBook::open(alloc)?,
            known: true,
            same: 0,
            last: 0,
            arrived: 0,
        })
    }

    /// Discards everything, as at an opening.
    pub fn clear(&mut self)
        ensures { (width : ℕ) → AcksStandFor width 0 0 self.new [] }
    {
        self.book.clear();
        self.known = true;
        self.same = 0;
        self.last = 0;
        self.arrived = 0;
    }

    /// Counts an unencrypted data packet with any number.
    pub fn arrived(&mut self)
        ensures { (time : ℕ) (region : Region) (put : Put) → AcksBecome self.old self.new (λ point notes. Arrived time region put ∷ notes) }
    {
        self.arrived = self.arrived.saturating_add(1).min(LIGHT_ACK_PACKETS);
    }

    /// Records that the front and the acknowledgement point moved on by these numbers of packets. If either moved, the
    /// pair is a new one.
    pub fn moves(&mut self, front_steps: u32, point_steps: u32)
        ensures { AcksMove front_steps point_steps self.old self.new }
    {
        if front_steps.saturating_add(point_steps) == 0 {
            return;
        }
        self.known = false;
        self.same = 0;
    }

    /// Records an ACKACK with this number, at a time in microseconds since the opening (section 3.2.8). Returns the
    /// sample of the round-trip time, in microseconds, at most 10 seconds. None if it confirms none of the last 64
    /// Full ACKs, or one that was confirmed before.
    pub fn confirm(&mut self, number: u32, time: u64) -> Option<u64>
        ensures sample { AcksHoldOf self.old (λ width front point notes. result ≡ option_map (sample_of time) (confirmed_by number notes)) }
        ensures stands { (stamp : ℕ) → AcksBecome self.old self.new (λ point notes. confirmed_notes time stamp (confirmed_by number notes) notes) }
        ensures capped { IfSome result (λ s. s ≤ 10_000_000) }
    {
        let place = self.book.place_of(number)?;
        self.known = is_known_after(self.known, place, self.same);
        self.book.confirm(number, time)
    }

    /// Whether a Full ACK is due: the current pair isn't confirmed, and the last Full ACK is at least 10 ms ago.
    pub fn is_full_due(&self, time: u64) -> bool
        ensures { AcksHoldOf self.now (λ width front point notes. result ≡ is_full_due width point (front + width - point) time notes) }
    {
        if self.known {
            return false;
        }
        time.saturating_sub(self.last) >= FULL_ACK_INTERVAL_US
    }

    /// Whether a Light ACK is due if no Full ACK is: 64 data packets arrived since the last ACK.
    fn is_light_due(&self) -> bool
        ensures { AcksHoldOf self.now (λ width front point notes. result ≡ is_light_due notes) }
    {
        self.arrived >= LIGHT_ACK_PACKETS
    }

    /// Writes a Full ACK and records that it is sent.
    fn full(&mut self, time: u64, state: State, rtt: Rtt, rates: Rates, body: &mut Body<'_>)
        ensures stands { NotesFullAck time state.available rtt rates self.old self.new }
        ensures bytes { WritesFullAck time state.point state.available rtt rates self.old body.new }
        ensures writable { IsWritable body.new }
    {
        self.same = self.same.saturating_add(1).min(FULL_ACKS_KEPT);
        self.last = time;
        self.arrived = 0;
        *body = Body::FullAck {
            number: self.book.note(time),
            point: state.point,
            round_trip: rtt.rtt(),
            variance: rtt.variance(),
            available: state.available,
            rates,
        };
    }

    /// Writes a Light ACK and records that it is sent.
    fn light(&mut self, time: u64, point: Seq31, body: &mut Body<'_>)
        ensures stands { AcksBecome self.old self.new (λ a notes. noted time (TheLightAck a ∷ []) notes) }
        ensures bytes { WritesLightAck time point body.new }
        ensures writable { IsWritable body.new }
    {
        self.arrived = 0;
        *body = Body::LightAck { point };
    }

    /// Writes the body of the ACK that is due at a time in microseconds since the opening: a Full ACK, or else a Light
    /// ACK. Returns whether one is due; if not, `body` is unchanged and nothing is recorded. O(1).
    pub fn report(
        &mut self,
        time: u64,
        state: State,
        rtt: Rtt,
        meter: &Meter,
        body: &mut Body<'_>,
    ) -> bool
        ensures stands { NotesAck time state.available rtt meter.now self.old self.new }
        ensures bytes { WritesAck time state.point state.available rtt meter.now self.old (listed (given result body.new)) }
        ensures count { CountsAcks time state.available self.old (listed (given result body.new)) }
        ensures writable { result ≡ true → IsWritable body.new }
        ensures kept { result ≡ false → body.new ≡ body.old }
    {
        if self.is_full_due(time) {
            self.full(time, state, rtt, meter.rates(), body);
            return true;
        }
        if self.is_light_due() {
            self.light(time, state.point, body);
            return true;
        }
        false
    }
}

/// Whether the current pair is confirmed after the confirmation of the Full ACK that is `place` positions before the
/// newest one. `same` is the number of newest Full ACKs that reported this pair.
fn is_known_after(known: bool, place: usize, same: usize) -> bool
    ensures { result ≡ (known || nat_lt place same) }
{
    if known {
        return true;
    }
    place < same
}
