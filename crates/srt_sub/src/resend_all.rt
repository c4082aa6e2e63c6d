//! Resending all packets in flight: when no data packet was sent and no ACK acknowledged more for long enough (our
//! choice). The *timeout* is RTT + 4 x variance + 20 ms, with the values that the last ACK reported.

ghost use Rattle.std.specs.Prelude.{◌≡◌, ◌*◌, ◌^◌, min, nat_le};
ghost use Rattle.srt_sub.specs.Subscribing.{presumed, has_waited};

use crate::history::History;
use crate::session::Subscriber;

/// When a session marks all packets in flight as lost, although no NAK requested them. The times are counted from the
/// last data packet sent or the last ACK that acknowledged more than all earlier ones, whichever was later.
#[derive(Clone, Copy, Debug, PartialEq, Eq)]
pub enum Resending {
    /// After each timeout. For routes whose callers follow the draft.
    AtEachTimeout,
    /// After the timeout and half the delay, at most once until an ACK acknowledges more; not if nothing was received
    /// from the caller for a second. For live sessions of libsrt callers that send periodic NAKs: the last packets may
    /// be lost without a NAK, and all others are requested.
    Once,
    /// After the timeout, and twice as long each time until an ACK acknowledges more, up to 64 times the timeout; not
    /// if nothing was received from the caller for a second. For other sessions of libsrt callers.
    BackingOff,
}

impl Subscriber {
    ghost use Rattle.srt_sub.specs.Stands.{BecomesIn};

    /// Marks all packets in flight as lost if none of them is lost and it is time to resend all; `time` is in
    /// microseconds since the opening. `recent`: a packet from the caller was received less than a second ago.
    pub(crate) fn presume(&mut self, time: u64, recent: bool)
        ensures stands { BecomesIn time self.old self.new (λ terms m. presumed terms time recent m) }
        ensures phase { self.new.phase ≡ self.old.phase }
    {
        if self.buffer.in_flight() == 0 {
            return;
        }
        if self.buffer.any_lost() {
            return;
        }
        if self
            .history
            .resend_due(self.resending, self.delay, time, recent)
        {
            self.buffer.lose_all();
            self.history.note_presumed();
        }
    }
}

impl History {
    ghost use Rattle.srt_sub.specs.Stands.{ForWhateverNotes, NotesPresumed};

    /// Whether the last data packet and the last growth are long enough ago to resend all, by this rule and with this
    /// delay in microseconds. `recent`: a packet from the caller was received less than a second ago.
    pub fn resend_due(&self, rule: Resending, delay: u32, time: u64, recent: bool) -> bool
        ensures { ForWhateverNotes self.now (λ initial agreed notes. result ≡ has_waited rule delay time recent notes) }
    {
        let timeout = self.round_trip.resend_after();
        let quiet = time.saturating_sub(self.media.max(self.growth));
        match rule {
            Resending::AtEachTimeout => timeout <= quiet,
            Resending::Once => {
                recent & (self.tries == 0) & (timeout.max(u64::from(delay / 2)) <= quiet)
            }
            Resending::BackingOff => recent & has_backed_off(timeout, self.tries, quiet),
        }
    }

    /// Records that all packets in flight were marked as lost.
    pub fn note_presumed(&mut self)
        ensures { NotesPresumed self.old self.new }
    {
        self.tries = self.tries.saturating_add(1);
    }
}

/// Whether a time is at least a timeout that is doubled once for each of these tries, but at most six times. The time
/// is halved instead, since the product could overflow.
fn has_backed_off(timeout: u64, tries: u32, quiet: u64) -> bool
    ensures { result ≡ nat_le (timeout * 2 ^ min tries 6) quiet }
{
    timeout <= quiet >> tries.min(6)
}
