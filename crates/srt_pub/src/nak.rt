//! NAKs: of all gaps at each NAK interval, else of the gaps that appeared with an event (draft-sharabayko-srt-01,
//! sections 3.2.5 and 4.8.2).

ghost use Rattle.std.specs.Prelude.{◌≡◌, List, ◌∷◌, true, false, if◌then◌else◌};
ghost use Rattle.srt_types.specs.Given.{given};
ghost use Rattle.srt_packet.specs.Encoded.{bytes_of, IsPacketText};
ghost use Rattle.srt_recvbuf.specs.Receiving.{end_of};
ghost use Rattle.srt_recvbuf.specs.Stands.{words_of};
ghost use Rattle.srt_types.specs.Runs.{Run};
ghost use Rattle.srt_pub.specs.Counting.{capped, numbers_between, numbers_in_pairs};
ghost use Rattle.srt_pub.specs.Publishing.{naks, is_nak_due, nak_report};
ghost use Rattle.srt_pub.specs.Calls.{listed};
ghost use Rattle.srt_pub.specs.Publishing.Note.{Sent};

use crate::log::Log;
use crate::session::{Publisher, steps};
use arrayvec::ArrayVec;
use srt_loss::write;
use srt_packet::{Body, EncodedPacket};
use srt_types::Seq31;

impl Publisher {
    ghost use Rattle.srt_pub.specs.Stands.{opening_of};
    ghost use Rattle.srt_pub.specs.Changes.{Becomes, HoldsOf, Writes, nak_words, with_sent};

    /// Writes the NAK that is due: of all gaps at each NAK interval, else of the new gaps (section 4.8.2). Returns
    /// whether one is due; if not, `packet` is unchanged.
    pub(crate) fn nak(&mut self, time: u64, packet: &mut EncodedPacket) -> bool
        ensures stands { Becomes self.old self.new (λ terms initial m. with_sent time (naks terms time m) m) }
        ensures opening { opening_of self.new ≡ opening_of self.old }
        ensures bytes { Writes time self.old (listed (given result packet.new)) naks }
        ensures packet { result ≡ true → IsPacketText (bytes_of packet.new) }
        ensures kept { result ≡ false → packet.new ≡ packet.old }
    {
        if !self.buffer.has_gaps() {
            return false;
        }
        let all = self.log.is_nak_due(time);
        let runs = self.runs(all);
        if runs.is_empty() {
            return false;
        }
        self.log.nak(time, all);
        self.counts.ask(numbers_in(&runs));
        let body = Body::Nak {
            losses: write(&runs),
        };
        self.encode(time, body, packet);
        true
    }

    /// Returns the runs that a NAK reports: of all gaps, or of those above the numbers received before this event.
    fn runs(&self, all: bool) -> ArrayVec<(Seq31, Seq31), 32>
        ensures { HoldsOf self.now (λ terms initial m. words_of result.items ≡ nak_words all terms initial m) }
    {
        let front = self.buffer.front();
        if all {
            self.buffer.runs(front)
        } else {
            self.buffer.runs(front.add(self.log.seen))
        }
    }

    /// Ends the event: the next NAK of new gaps starts at the current end of the received numbers.
    pub(crate) fn see(&mut self)
        ensures stands { Becomes self.old self.new (λ terms initial m. record m { seen = end_of m.receiving.arrivals }) }
        ensures opening { opening_of self.new ≡ opening_of self.old }
    {
        let seen = steps(self.buffer.front(), self.buffer.top());
        self.log.see(seen);
    }
}

impl Log {
    ghost use Rattle.srt_pub.specs.inside.Noting.{LogBecomes, LogHoldsOf};

    /// Whether a NAK of all gaps is due: the last one is at least the NAK interval ago (section 4.8.2).
    pub fn is_nak_due(&self, time: u64) -> bool
        ensures { LogHoldsOf self.now (λ terms notes. result ≡ is_nak_due terms.callers time notes) }
    {
        time.saturating_sub(self.nak) >= self.rtt.values().nak_interval()
    }

    /// Records that a NAK is sent, of all gaps or of new ones only.
    pub fn nak(&mut self, time: u64, all: bool)
        ensures { (rs : List Run) → LogBecomes self.old self.new (λ notes. Sent time (nak_report all rs) ∷ notes) }
    {
        self.nak = later_if(all, time, self.nak);
        self.sent = time;
    }
}

/// Returns the number of numbers from `first` to `last`, inclusive.
fn numbers_between(first: Seq31, last: Seq31) -> u64
    ensures { result ≡ numbers_between first last }
{
    u64::from(steps(first, last)) + 1
}

/// Returns the number of numbers in these runs, each a pair of its first and its last number. Stops at 2^64 - 1.
fn numbers_in(runs: &ArrayVec<(Seq31, Seq31), 32>) -> u64
    ensures { result ≡ capped (numbers_in_pairs runs.now.items) }
{
    let mut count = 0u64;
    for run in runs.as_slice() {
        let (first, last) = *run;
        count = count.saturating_add(numbers_between(first, last));
    }
    count
}

/// Returns `time` if `all`, else `before`.
fn later_if(all: bool, time: u64, before: u64) -> u64
    ensures { result ≡ (if all then time else before) }
{
    if all { time } else { before }
}
