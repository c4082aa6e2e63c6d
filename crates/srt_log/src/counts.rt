//! What a line shows of a session's counts.

ghost use Rattle.std.specs.Prelude.{◌≡◌};
ghost use Rattle.srt_log.specs.Snapshots.{packets_in, bytes_in, lost_in, resent_in};

use srt_route::Traffic;

/// Returns the data packets of a session, each counted once.
pub(crate) fn packets_in(traffic: &Traffic) -> u64
    ensures { result ≡ packets_in traffic.now }
{
    match traffic {
        Traffic::Received(statistics) => statistics.counts.received,
        Traffic::Sent(statistics) => statistics.sendings.fresh,
    }
}

/// Returns the bytes that these packets carried.
pub(crate) fn bytes_in(traffic: &Traffic) -> u64
    ensures { result ≡ bytes_in traffic.now }
{
    match traffic {
        Traffic::Received(statistics) => statistics.counts.bytes,
        Traffic::Sent(statistics) => statistics.counts.bytes,
    }
}

/// Returns how many packets were lost: those that a publisher's session dropped as missing, or a subscriber's as too late.
pub(crate) fn lost_in(traffic: &Traffic) -> u64
    ensures { result ≡ lost_in traffic.now }
{
    match traffic {
        Traffic::Received(statistics) => statistics.counts.given_up,
        Traffic::Sent(statistics) => statistics.counts.given_up,
    }
}

/// Returns how many packets a subscriber's session sent again; of a publisher's, those that arrived in addition to those
/// received: again, too late, or too far ahead.
pub(crate) fn resent_in(traffic: &Traffic) -> u64
    ensures { result ≡ resent_in traffic.now }
{
    match traffic {
        Traffic::Received(statistics) => statistics
            .counts
            .arrived
            .saturating_sub(statistics.counts.received),
        Traffic::Sent(statistics) => statistics.sendings.resent,
    }
}
