//! Sums of the counts of sessions.

ghost use Rattle.std.specs.Prelude.{◌≡◌};
ghost use Rattle.srt_route.specs.Totals.{both_received, both_queued, both_sent, no_totals, with_traffic};

use crate::view::Traffic;

/// The counts of all sessions of a route, ended and open. Each count saturates at 2^64 - 1.
#[derive(Clone, Copy, Debug, PartialEq, Eq)]
pub struct Totals {
    /// Of all publishers' sessions: packets that arrived, were received, were delivered or skipped, and were given up;
    /// NAKs, and Full ACKs of a full window.
    pub received: srt_pub::Counts,
    /// Of all subscribers' sessions: payloads queued, reported lost, and given up, and data packets that arrived.
    pub queued: srt_sub::Counts,
    /// Of all subscribers' sessions: data packets sent for the first time, and retransmitted.
    pub sent: srt_sub::Sendings,
}

/// Adds two publishers' counts.
fn both_received(a: srt_pub::Counts, b: srt_pub::Counts) -> srt_pub::Counts
    ensures { result ≡ both_received a b }
{
    srt_pub::Counts {
        arrived: a.arrived.saturating_add(b.arrived),
        late: a.late.saturating_add(b.late),
        ahead: a.ahead.saturating_add(b.ahead),
        received: a.received.saturating_add(b.received),
        bytes: a.bytes.saturating_add(b.bytes),
        delivered: a.delivered.saturating_add(b.delivered),
        given_up: a.given_up.saturating_add(b.given_up),
        naks: a.naks.saturating_add(b.naks),
        reported_lost: a.reported_lost.saturating_add(b.reported_lost),
        full_window_acks: a.full_window_acks.saturating_add(b.full_window_acks),
    }
}

/// Adds two subscribers' counts of payloads and loss lists.
fn both_queued(a: srt_sub::Counts, b: srt_sub::Counts) -> srt_sub::Counts
    ensures { result ≡ both_queued a b }
{
    srt_sub::Counts {
        queued: a.queued.saturating_add(b.queued),
        bytes: a.bytes.saturating_add(b.bytes),
        naks: a.naks.saturating_add(b.naks),
        given_up: a.given_up.saturating_add(b.given_up),
        misdirected: a.misdirected.saturating_add(b.misdirected),
    }
}

/// Adds two subscribers' counts of data packets.
fn both_sent(a: srt_sub::Sendings, b: srt_sub::Sendings) -> srt_sub::Sendings
    ensures { result ≡ both_sent a b }
{
    srt_sub::Sendings {
        fresh: a.fresh.saturating_add(b.fresh),
        resent: a.resent.saturating_add(b.resent),
    }
}

impl Totals {
    /// Returns the totals of no session.
    pub(crate) fn none() -> Totals
        ensures { result ≡ no_totals }
    {
        Totals {
            received: srt_pub::Counts {
                arrived: 0,
                late: 0,
                ahead: 0,
                received: 0,
                bytes: 0,
                delivered: 0,
                given_up: 0,
                naks: 0,
                reported_lost: 0,
                full_window_acks: 0,
            },
            queued: srt_sub::Counts {
                queued: 0,
                bytes: 0,
                naks: 0,
                given_up: 0,
                misdirected: 0,
            },
            sent: srt_sub::Sendings {
                fresh: 0,
                resent: 0,
            },
        }
    }

    /// Returns these totals with the counts of one more session.
    pub(crate) fn with(&self, traffic: &Traffic) -> Totals
        ensures { result ≡ with_traffic traffic.now self.now }
    {
        match traffic {
            Traffic::Received(x) => Totals {
                received: both_received(self.received, x.counts),
                queued: self.queued,
                sent: self.sent,
            },
            Traffic::Sent(x) => Totals {
                received: self.received,
                queued: both_queued(self.queued, x.counts),
                sent: both_sent(self.sent, x.sendings),
            },
        }
    }
}
