//! The labels of families that are counted by a cause, and the count of each.

ghost use Rattle.std.specs.Prelude.{◌≡◌};
ghost use Rattle.srt_status.specs.Labels.{cause_label, cause_count, end_label, end_count};

use crate::gateway::CauseCounts;
use crate::route_status::EndCounts;

/// A cause for which the lobby refuses with 1002.
#[derive(Clone, Copy)]
pub(crate) enum Cause {
    NoName,
    UnknownName,
    PublishFrom,
    RequestFrom,
    PublishKey,
    RequestKey,
}

/// All causes, in the order in which they are shown.
pub(crate) const CAUSES: [Cause; 6] = [
    Cause::NoName,
    Cause::UnknownName,
    Cause::PublishFrom,
    Cause::RequestFrom,
    Cause::PublishKey,
    Cause::RequestKey,
];

/// The name of a cause.
pub(crate) fn cause_label(cause: Cause) -> &'static str
    ensures { result.now ≡ cause_label cause }
{
    match cause {
        Cause::NoName => "no_name",
        Cause::UnknownName => "unknown_name",
        Cause::PublishFrom => "publish_from",
        Cause::RequestFrom => "request_from",
        Cause::PublishKey => "publish_key",
        Cause::RequestKey => "request_key",
    }
}

/// How many conclusions were refused for this cause.
pub(crate) fn cause_count(cause: Cause, counts: &CauseCounts) -> u64
    ensures { result ≡ cause_count cause counts.now }
{
    match cause {
        Cause::NoName => counts.no_name,
        Cause::UnknownName => counts.unknown_name,
        Cause::PublishFrom => counts.publish_from,
        Cause::RequestFrom => counts.request_from,
        Cause::PublishKey => counts.publish_key,
        Cause::RequestKey => counts.request_key,
    }
}

/// Why sessions end.
#[derive(Clone, Copy)]
pub(crate) enum Ending {
    Shutdown,
    DrainedTooLong,
    Silence,
    WindowLost,
    StreamEnd,
    RouteClosed,
    Unknown,
}

/// All reasons of ends, in the order in which they are shown.
pub(crate) const ENDINGS: [Ending; 7] = [
    Ending::Shutdown,
    Ending::DrainedTooLong,
    Ending::Silence,
    Ending::WindowLost,
    Ending::StreamEnd,
    Ending::RouteClosed,
    Ending::Unknown,
];

/// The name of a reason of an end.
pub(crate) fn end_label(ending: Ending) -> &'static str
    ensures { result.now ≡ end_label ending }
{
    match ending {
        Ending::Shutdown => "shutdown",
        Ending::DrainedTooLong => "drained_too_long",
        Ending::Silence => "silence",
        Ending::WindowLost => "window_lost",
        Ending::StreamEnd => "stream_end",
        Ending::RouteClosed => "route_closed",
        Ending::Unknown => "unknown",
    }
}

/// How many sessions ended for this reason.
pub(crate) fn end_count(ending: Ending, counts: &EndCounts) -> u64
    ensures { result ≡ end_count ending counts.now }
{
    match ending {
        Ending::Shutdown => counts.shutdown,
        Ending::DrainedTooLong => counts.drained_too_long,
        Ending::Silence => counts.silence,
        Ending::WindowLost => counts.window_lost,
        Ending::StreamEnd => counts.stream_end,
        Ending::RouteClosed => counts.route_closed,
        Ending::Unknown => counts.unknown,
    }
}
