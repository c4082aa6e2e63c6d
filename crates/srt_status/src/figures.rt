//! The families of figures that the page of metrics shows, with their names and help, and the value of each.

ghost use Rattle.std.specs.Prelude.{◌≡◌};
ghost use Rattle.srt_status.specs.Figures.{count_name, count_help, publisher_count, subscriber_count, gauge_name, gauge_help, gauge_amount};
ghost use Rattle.srt_status.specs.Figures.{publisher_amount, subscriber_amount, latency_amount, round_trip_of, variance_of, trip_amount, traffic_amount};
ghost use Rattle.srt_status.specs.Figures.{correction_of, ppm_of, drift_amount, correction_amount, key_amount, repeats_of, session_count, total_name};
ghost use Rattle.srt_status.specs.Figures.{total_help, total_kind, total_value, refusal_count, figure_name};
ghost use Rattle.srt_status.specs.Figures.{figure_help, figure_kind, limit_figure, route_figure, one_if_some, absent_if};

use crate::expectation::Expectation;
use crate::gateway::{GatewayStatus, RefusalCounts};
use crate::route_status::{LimitCounts, RouteStatus};
use srt_hs::RefusalCode;
use srt_route::{SessionView, Traffic};
use srt_sub::Sendings;
use srt_types::KeyLength;

/// The round-trip time with which a session begins, in microseconds (section 4.10).
const FIRST_ROUND_TRIP: u32 = 100_000;

/// Its variance.
const FIRST_VARIANCE: u32 = 50_000;

/// A value with its unit.
#[derive(Clone, Copy)]
pub(crate) enum Amount {
    /// A number of things or of bytes.
    Number(u64),
    /// A time in microseconds, which is shown in seconds.
    Micros(u64),
    /// The same of a time that may be negative.
    SignedMicros(i64),
    /// Parts per million.
    PartsPerMillion(i128),
}

/// What sessions count.
#[derive(Clone, Copy)]
pub(crate) enum Count {
    ReceivedPackets,
    ReceivedBytes,
    DeliveredPackets,
    RepeatedPackets,
    LatePackets,
    AheadPackets,
    ReportedLost,
    NaksSent,
    FullWindowAcks,
    GivenUp,
    QueuedPackets,
    QueuedBytes,
    SentPackets,
    ResentPackets,
    NaksTaken,
    Misdirected,
}

/// All that sessions count, in the order in which it is shown.
pub(crate) const COUNTS: [Count; 16] = [
    Count::ReceivedPackets,
    Count::ReceivedBytes,
    Count::DeliveredPackets,
    Count::RepeatedPackets,
    Count::LatePackets,
    Count::AheadPackets,
    Count::ReportedLost,
    Count::NaksSent,
    Count::FullWindowAcks,
    Count::GivenUp,
    Count::QueuedPackets,
    Count::QueuedBytes,
    Count::SentPackets,
    Count::ResentPackets,
    Count::NaksTaken,
    Count::Misdirected,
];

/// The state of an open session.
#[derive(Clone, Copy)]
pub(crate) enum Gauge {
    Active,
    Open,
    Silent,
    Latency,
    RoundTrip,
    RoundTripVariance,
    WindowUsed,
    WindowAvailable,
    FreePlaces,
    InFlight,
    FlowWindow,
    ClockDrift,
    ClockCorrection,
    KeyLength,
}

/// All states of an open session, in the order in which they are shown.
pub(crate) const GAUGES: [Gauge; 14] = [
    Gauge::Active,
    Gauge::Open,
    Gauge::Silent,
    Gauge::Latency,
    Gauge::RoundTrip,
    Gauge::RoundTripVariance,
    Gauge::WindowUsed,
    Gauge::WindowAvailable,
    Gauge::FreePlaces,
    Gauge::InFlight,
    Gauge::FlowWindow,
    Gauge::ClockDrift,
    Gauge::ClockCorrection,
    Gauge::KeyLength,
];

/// What is shown of the gateway as a whole.
#[derive(Clone, Copy)]
pub(crate) enum Total {
    Polling,
    Uptime,
    Routes,
    ResidentMemory,
    ReceiveBuffer,
    KernelDrops,
    Read,
    Answered,
    Accepted,
    Full,
    Dropped,
    NotAllowed,
    Memory,
    Sent,
    Lost,
    Faults,
    NoName,
    UnknownName,
    PublishFrom,
    RequestFrom,
    PublishKey,
    RequestKey,
    ChangesTaken,
    ChangesRefused,
    Indexes,
}

/// All that is shown of the gateway as a whole, in its order.
pub(crate) const TOTALS: [Total; 25] = [
    Total::Polling,
    Total::Uptime,
    Total::Routes,
    Total::ResidentMemory,
    Total::ReceiveBuffer,
    Total::KernelDrops,
    Total::Read,
    Total::Answered,
    Total::Accepted,
    Total::Full,
    Total::Dropped,
    Total::NotAllowed,
    Total::Memory,
    Total::Sent,
    Total::Lost,
    Total::Faults,
    Total::NoName,
    Total::UnknownName,
    Total::PublishFrom,
    Total::RequestFrom,
    Total::PublishKey,
    Total::RequestKey,
    Total::ChangesTaken,
    Total::ChangesRefused,
    Total::Indexes,
];

pub(crate) fn count_name(count: Count) -> &'static str
    ensures { result.now ≡ count_name count }
{
    match count {
        Count::ReceivedPackets => "received_packets_total",
        Count::ReceivedBytes => "received_bytes_total",
        Count::DeliveredPackets => "delivered_packets_total",
        Count::RepeatedPackets => "repeated_packets_total",
        Count::LatePackets => "late_packets_total",
        Count::AheadPackets => "ahead_packets_total",
        Count::ReportedLost => "reported_lost_packets_total",
        Count::NaksSent => "naks_sent_total",
        Count::FullWindowAcks => "full_window_acks_total",
        Count::GivenUp => "given_up_packets_total",
        Count::QueuedPackets => "queued_packets_total",
        Count::QueuedBytes => "queued_bytes_total",
        Count::SentPackets => "sent_packets_total",
        Count::ResentPackets => "resent_packets_total",
        Count::NaksTaken => "naks_taken_total",
        Count::Misdirected => "misdirected_packets_total",
    }
}

pub(crate) fn count_help(count: Count) -> &'static str
    ensures { result.now ≡ count_help count }
{
    match count {
        Count::ReceivedPackets => "Data packets received from publishers, each counted once.",
        Count::ReceivedBytes => "Payload bytes received from publishers.",
        Count::DeliveredPackets => "Packets of publishers that were delivered to the subscribers.",
        Count::RepeatedPackets => "Packets received again from publishers.",
        Count::LatePackets => "Packets received too late from publishers.",
        Count::AheadPackets => "Packets received ahead of the window from publishers.",
        Count::ReportedLost => "Packets of publishers that were reported as lost.",
        Count::NaksSent => "NAKs sent to publishers.",
        Count::FullWindowAcks => "Full ACKs sent to publishers while their window was full.",
        Count::GivenUp => "Packets given up: of publishers as missing, of subscribers as too late.",
        Count::QueuedPackets => "Payloads queued for subscribers.",
        Count::QueuedBytes => "Payload bytes queued for subscribers.",
        Count::SentPackets => "Data packets sent to subscribers for the first time.",
        Count::ResentPackets => "Data packets sent to subscribers again.",
        Count::NaksTaken => "NAKs taken from subscribers.",
        Count::Misdirected => "Data packets from clients that did not request to publish.",
    }
}

// The data packets that publishers' sessions count under nothing else: repeats of packets that were received before.
fn repeats_of(counts: &srt_pub::Counts) -> u64
    ensures { result ≡ repeats_of counts.now }
{
    counts
        .arrived
        .saturating_sub(counts.received)
        .saturating_sub(counts.late)
        .saturating_sub(counts.ahead)
}

/// Returns this count of publishers' sessions; None if they don't count it.
pub(crate) fn publisher_count(count: Count, counts: &srt_pub::Counts) -> Option<u64>
    ensures { result ≡ publisher_count count counts.now }
{
    match count {
        Count::ReceivedPackets => Some(counts.received),
        Count::ReceivedBytes => Some(counts.bytes),
        Count::DeliveredPackets => Some(counts.delivered),
        Count::RepeatedPackets => Some(repeats_of(counts)),
        Count::LatePackets => Some(counts.late),
        Count::AheadPackets => Some(counts.ahead),
        Count::ReportedLost => Some(counts.reported_lost),
        Count::NaksSent => Some(counts.naks),
        Count::FullWindowAcks => Some(counts.full_window_acks),
        Count::GivenUp => Some(counts.given_up),
        Count::QueuedPackets
        | Count::QueuedBytes
        | Count::SentPackets
        | Count::ResentPackets
        | Count::NaksTaken
        | Count::Misdirected => None,
    }
}

/// Returns this count of subscribers' sessions; None if they don't count it.
pub(crate) fn subscriber_count(
    count: Count,
    counts: &srt_sub::Counts,
    sendings: &Sendings,
) -> Option<u64>
    ensures { result ≡ subscriber_count count counts.now sendings.now }
{
    match count {
        Count::GivenUp => Some(counts.given_up),
        Count::QueuedPackets => Some(counts.queued),
        Count::QueuedBytes => Some(counts.bytes),
        Count::SentPackets => Some(sendings.fresh),
        Count::ResentPackets => Some(sendings.resent),
        Count::NaksTaken => Some(counts.naks),
        Count::Misdirected => Some(counts.misdirected),
        Count::ReceivedPackets
        | Count::ReceivedBytes
        | Count::DeliveredPackets
        | Count::RepeatedPackets
        | Count::LatePackets
        | Count::AheadPackets
        | Count::ReportedLost
        | Count::NaksSent
        | Count::FullWindowAcks => None,
    }
}

pub(crate) fn gauge_name(gauge: Gauge) -> &'static str
    ensures { result.now ≡ gauge_name gauge }
{
    match gauge {
        Gauge::Active => "active",
        Gauge::Open => "open_seconds",
        Gauge::Silent => "silent_seconds",
        Gauge::Latency => "latency_seconds",
        Gauge::RoundTrip => "round_trip_seconds",
        Gauge::RoundTripVariance => "round_trip_variance_seconds",
        Gauge::WindowUsed => "window_used_packets",
        Gauge::WindowAvailable => "window_available_packets",
        Gauge::FreePlaces => "free_packets",
        Gauge::InFlight => "in_flight_packets",
        Gauge::FlowWindow => "flow_window_packets",
        Gauge::ClockDrift => "publisher_clock_drift_ppm",
        Gauge::ClockCorrection => "publisher_clock_correction_seconds",
        Gauge::KeyLength => "key_length_bytes",
    }
}

pub(crate) fn gauge_help(gauge: Gauge) -> &'static str
    ensures { result.now ≡ gauge_help gauge }
{
    match gauge {
        Gauge::Active => "1 for the active publisher of a route, 0 for the standby.",
        Gauge::Open => "The time since the session was opened.",
        Gauge::Silent => "The time since the last packet from the client.",
        Gauge::Latency => "The delay that was agreed with the caller.",
        Gauge::RoundTrip => "The smoothed round-trip time.",
        Gauge::RoundTripVariance => "The variance of the round-trip time.",
        Gauge::WindowUsed => "The places of a publisher's window in use.",
        Gauge::WindowAvailable => "The places of a publisher's window that are available.",
        Gauge::FreePlaces => "The free places of a subscriber's buffer.",
        Gauge::InFlight => "The packets of a subscriber in flight.",
        Gauge::FlowWindow => "The flow window that a subscriber reported last.",
        Gauge::ClockDrift =>
            "How much a publisher's clock is off, over its session: positive for one that is slow.",
        Gauge::ClockCorrection =>
            "By how much delivery follows a publisher's clock: positive for one that is slow.",
        Gauge::KeyLength => "The length of the keys of an encrypted session: 16, 24 or 32.",
    }
}

/// Returns this state of a publisher's session; None if it is none of one.
fn publisher_amount(gauge: Gauge, active: bool, session: &srt_pub::Statistics) -> Option<Amount>
    ensures { result ≡ publisher_amount gauge active session.now }
{
    match gauge {
        Gauge::Active => Some(Amount::Number(u64::from(active))),
        Gauge::WindowUsed => Some(Amount::Number(u64::from(session.in_use))),
        Gauge::WindowAvailable => Some(Amount::Number(u64::from(session.available))),
        _ => None,
    }
}

/// Returns this state of a subscriber's session; None if it is none of one.
fn subscriber_amount(gauge: Gauge, session: &srt_sub::Statistics) -> Option<Amount>
    ensures { result ≡ subscriber_amount gauge session.now }
{
    match gauge {
        Gauge::FreePlaces => Some(Amount::Number(u64::from(session.room))),
        Gauge::InFlight => Some(Amount::Number(u64::from(session.in_flight))),
        Gauge::FlowWindow => Some(Amount::Number(u64::from(session.flow_window))),
        _ => None,
    }
}

/// Returns a latency; None for the 0 of a session in buffer mode.
fn latency_amount(latency_ms: u16) -> Option<Amount>
    ensures { result ≡ latency_amount latency_ms }
{
    if latency_ms == 0 {
        return None;
    }
    Some(Amount::Micros(u64::from(latency_ms) * 1000))
}

pub(crate) fn round_trip_of(traffic: &Traffic) -> u32
    ensures { result ≡ round_trip_of traffic.now }
{
    match traffic {
        Traffic::Received(statistics) => statistics.rtt,
        Traffic::Sent(statistics) => statistics.rtt,
    }
}

fn variance_of(traffic: &Traffic) -> u32
    ensures { result ≡ variance_of traffic.now }
{
    match traffic {
        Traffic::Received(statistics) => statistics.variance,
        Traffic::Sent(statistics) => statistics.variance,
    }
}

/// Returns this time of a session's round trip; None as long as nothing is measured: then both are those with which each session
/// begins (section 4.10).
pub(crate) fn trip_amount(traffic: &Traffic, micros: u32) -> Option<Amount>
    ensures { result ≡ trip_amount (round_trip_of traffic.now) (variance_of traffic.now) micros }
{
    if round_trip_of(traffic) == FIRST_ROUND_TRIP && variance_of(traffic) == FIRST_VARIANCE {
        return None;
    }
    Some(Amount::Micros(u64::from(micros)))
}

/// Returns the microseconds by which delivery follows the clock of a publisher; None where the clock isn't followed.
fn correction_of(traffic: &Traffic) -> Option<i64>
    ensures { result ≡ correction_of traffic.now }
{
    match traffic {
        Traffic::Received(statistics) => statistics.correction,
        Traffic::Sent(_) => None,
    }
}

/// Returns a correction in parts per million of this time, rounded toward 0. Both are in microseconds.
fn ppm_of(correction: i64, elapsed: u64) -> i128
    ensures { result ≡ ppm_of correction elapsed }
{
    if elapsed == 0 {
        return 0;
    }
    1_000_000 * i128::from(correction) / i128::from(elapsed)
}

/// Returns the drift of a clock that is followed since this time.
fn drift_amount(correction: Option<i64>, elapsed: u64) -> Option<Amount>
    ensures { result ≡ drift_amount correction elapsed }
{
    match correction {
        Some(micros) => Some(Amount::PartsPerMillion(ppm_of(micros, elapsed))),
        None => None,
    }
}

fn correction_amount(correction: Option<i64>) -> Option<Amount>
    ensures { result ≡ correction_amount correction }
{
    match correction {
        Some(micros) => Some(Amount::SignedMicros(micros)),
        None => None,
    }
}

/// Returns the length of keys; None of a session that isn't encrypted.
fn key_amount(key_length: Option<KeyLength>) -> Option<Amount>
    ensures { result ≡ key_amount key_length }
{
    match key_length {
        Some(KeyLength::Aes128) => Some(Amount::Number(16)),
        Some(KeyLength::Aes192) => Some(Amount::Number(24)),
        Some(KeyLength::Aes256) => Some(Amount::Number(32)),
        None => None,
    }
}

/// Returns this state of a session by its role.
fn traffic_amount(gauge: Gauge, active: bool, traffic: &Traffic) -> Option<Amount>
    ensures { result ≡ traffic_amount gauge active traffic.now }
{
    match traffic {
        Traffic::Received(statistics) => publisher_amount(gauge, active, statistics),
        Traffic::Sent(statistics) => subscriber_amount(gauge, statistics),
    }
}

/// Returns this state of a session at this time; None if it is none of this session.
pub(crate) fn gauge_amount(gauge: Gauge, moment: u64, session: &SessionView) -> Option<Amount>
    ensures { result ≡ gauge_amount gauge moment session.now }
{
    match gauge {
        Gauge::Open => Some(Amount::Micros(moment.saturating_sub(session.opened))),
        Gauge::Silent => Some(Amount::Micros(moment.saturating_sub(session.heard))),
        Gauge::Latency => latency_amount(session.latency_ms),
        Gauge::RoundTrip => trip_amount(&session.traffic, round_trip_of(&session.traffic)),
        Gauge::RoundTripVariance => trip_amount(&session.traffic, variance_of(&session.traffic)),
        Gauge::ClockDrift => drift_amount(
            correction_of(&session.traffic),
            moment.saturating_sub(session.opened),
        ),
        Gauge::ClockCorrection => correction_amount(correction_of(&session.traffic)),
        Gauge::KeyLength => key_amount(session.key_length),
        _ => traffic_amount(gauge, session.is_active, &session.traffic),
    }
}

/// Returns this count of a session; None if sessions of its role don't count it.
pub(crate) fn session_count(count: Count, session: &SessionView) -> Option<u64>
    ensures { result ≡ session_count count session.now }
{
    match &session.traffic {
        Traffic::Received(statistics) => publisher_count(count, &statistics.counts),
        Traffic::Sent(statistics) => {
            subscriber_count(count, &statistics.counts, &statistics.sendings)
        }
    }
}

pub(crate) fn total_name(total: Total) -> &'static str
    ensures { result.now ≡ total_name total }
{
    match total {
        Total::Polling => "up",
        Total::Uptime => "uptime_seconds",
        Total::Routes => "configured_routes",
        Total::ResidentMemory => "resident_memory_bytes",
        Total::ReceiveBuffer => "receive_buffer_bytes",
        Total::KernelDrops => "kernel_dropped_datagrams_total",
        Total::Read => "poller_read_datagrams_total",
        Total::Answered => "poller_answered_datagrams_total",
        Total::Accepted => "poller_accepted_datagrams_total",
        Total::Full => "poller_full_datagrams_total",
        Total::Dropped => "poller_dropped_datagrams_total",
        Total::NotAllowed => "poller_not_allowed_datagrams_total",
        Total::Memory => "poller_memory_datagrams_total",
        Total::Sent => "poller_sent_datagrams_total",
        Total::Lost => "poller_lost_datagrams_total",
        Total::Faults => "poller_faults_total",
        Total::NoName => "lobby_refused_no_name_total",
        Total::UnknownName => "lobby_refused_unknown_name_total",
        Total::PublishFrom => "lobby_refused_publish_from_total",
        Total::RequestFrom => "lobby_refused_request_from_total",
        Total::PublishKey => "lobby_refused_publish_key_total",
        Total::RequestKey => "lobby_refused_request_key_total",
        Total::ChangesTaken => "config_changes_taken_total",
        Total::ChangesRefused => "config_changes_refused_total",
        Total::Indexes => "used_indexes",
    }
}

pub(crate) fn total_help(total: Total) -> &'static str
    ensures { result.now ≡ total_help total }
{
    match total {
        Total::Polling => "1 if the poller made a round within the last two seconds, else 0.",
        Total::Uptime => "The time since the start.",
        Total::Routes => "The routes of the configuration.",
        Total::ResidentMemory => "The resident memory of the process.",
        Total::ReceiveBuffer => "The buffer of the socket, as the kernel gave it.",
        Total::KernelDrops =>
            "Datagrams dropped by the kernel, since the socket's buffer was full.",
        Total::Read => "Datagrams read from the socket.",
        Total::Answered => "Datagrams answered before they belonged to a route.",
        Total::Accepted => "Datagrams accepted by the inbox of their route.",
        Total::Full => "Datagrams for a route whose inbox was full.",
        Total::Dropped => "Datagrams dropped, since they belong to no route and no handshake.",
        Total::NotAllowed => "Dropped datagrams to a route from an address in none of its lists.",
        Total::Memory => "Datagrams dropped because there was no memory for their copy.",
        Total::Sent => "Datagrams sent.",
        Total::Lost => "Datagrams that could not be sent.",
        Total::Faults => "Failed waits, reads and sends.",
        Total::NoName => "Conclusions refused with 1002: no Stream ID, or one with a fault.",
        Total::UnknownName => "Conclusions refused with 1002: no route has the name.",
        Total::PublishFrom => "Conclusions refused with 1002: the address is not in publish_from.",
        Total::RequestFrom => "Conclusions refused with 1002: the address is not in request_from.",
        Total::PublishKey => "Conclusions refused with 1002: publish_key is missing or wrong.",
        Total::RequestKey => "Conclusions refused with 1002: request_key is missing or wrong.",
        Total::ChangesTaken => "Changed configurations that were taken.",
        Total::ChangesRefused => "Changed configurations that were not taken.",
        Total::Indexes => "Indexes that routes have used since the start, of 511.",
    }
}

/// The type of a family, as the format names it.
pub(crate) fn total_kind(total: Total) -> &'static str
    ensures { result.now ≡ total_kind total }
{
    match total {
        Total::Polling
        | Total::Uptime
        | Total::Routes
        | Total::ResidentMemory
        | Total::ReceiveBuffer
        | Total::Indexes => "gauge",
        _ => "counter",
    }
}

/// This of the gateway; None if it isn't known.
pub(crate) fn total_value(total: Total, gateway: &GatewayStatus<'_>) -> Option<u64>
    ensures { result ≡ total_value total gateway.now }
{
    let poller = &gateway.poller;
    match total {
        Total::Polling => Some(u64::from(gateway.polling)),
        Total::Uptime => Some(gateway.uptime_seconds),
        Total::Routes => Some(u64::from(gateway.routes)),
        Total::ResidentMemory => gateway.resident_bytes,
        Total::ReceiveBuffer => gateway.receive_buffer_bytes,
        Total::KernelDrops => gateway.kernel_drops,
        Total::Read => Some(poller.read),
        Total::Answered => Some(poller.answered),
        Total::Accepted => Some(poller.accepted),
        Total::Full => Some(poller.full),
        Total::Dropped => Some(poller.dropped),
        Total::NotAllowed => Some(poller.not_allowed),
        Total::Memory => Some(poller.memory),
        Total::Sent => Some(poller.sent),
        Total::Lost => Some(poller.lost),
        Total::Faults => Some(poller.faults),
        Total::NoName => Some(gateway.causes.no_name),
        Total::UnknownName => Some(gateway.causes.unknown_name),
        Total::PublishFrom => Some(gateway.causes.publish_from),
        Total::RequestFrom => Some(gateway.causes.request_from),
        Total::PublishKey => Some(gateway.causes.publish_key),
        Total::RequestKey => Some(gateway.causes.request_key),
        Total::ChangesTaken => Some(gateway.changes.taken),
        Total::ChangesRefused => Some(gateway.changes.refused),
        Total::Indexes => Some(gateway.changes.indexes),
    }
}

/// All reasons for a refusal, in the order of their numbers.
pub(crate) const REASONS: [RefusalCode; 9] = [
    RefusalCode::Peer,
    RefusalCode::Resource,
    RefusalCode::Rogue,
    RefusalCode::Version,
    RefusalCode::BadSecret,
    RefusalCode::Unsecure,
    RefusalCode::MessageApi,
    RefusalCode::Filter,
    RefusalCode::Group,
];

/// How many conclusions were refused for this reason.
pub(crate) fn refusal_count(reason: RefusalCode, counts: &RefusalCounts) -> u64
    ensures { result ≡ refusal_count reason counts.now }
{
    match reason {
        RefusalCode::Peer => counts.peer,
        RefusalCode::Resource => counts.resource,
        RefusalCode::Rogue => counts.rogue,
        RefusalCode::Version => counts.version,
        RefusalCode::BadSecret => counts.bad_secret,
        RefusalCode::Unsecure => counts.unsecure,
        RefusalCode::MessageApi => counts.message_api,
        RefusalCode::Filter => counts.filter,
        RefusalCode::Group => counts.group,
    }
}

/// The metrics of a route that aren't counted by its sessions.
#[derive(Clone, Copy)]
pub(crate) enum RouteFigure {
    Allowed,
    Opened,
    TakeOvers,
    Expected,
    Absent,
    RefusedFull,
    RefusedReserved,
    RefusedAddress,
}

/// All metrics of a route that aren't counted by its sessions, in the order in which they are shown.
pub(crate) const ROUTE_FIGURES: [RouteFigure; 8] = [
    RouteFigure::Allowed,
    RouteFigure::Opened,
    RouteFigure::TakeOvers,
    RouteFigure::Expected,
    RouteFigure::Absent,
    RouteFigure::RefusedFull,
    RouteFigure::RefusedReserved,
    RouteFigure::RefusedAddress,
];

pub(crate) fn figure_name(figure: RouteFigure) -> &'static str
    ensures { result.now ≡ figure_name figure }
{
    match figure {
        RouteFigure::Allowed => "allowed_sessions",
        RouteFigure::Opened => "opened_sessions_total",
        RouteFigure::TakeOvers => "take_overs_total",
        RouteFigure::Expected => "expected",
        RouteFigure::Absent => "absent_seconds",
        RouteFigure::RefusedFull => "refused_sessions_total",
        RouteFigure::RefusedReserved => "refused_reserved_total",
        RouteFigure::RefusedAddress => "refused_sessions_per_address_total",
    }
}

pub(crate) fn figure_help(figure: RouteFigure) -> &'static str
    ensures { result.now ≡ figure_help figure }
{
    match figure {
        RouteFigure::Allowed => "The greatest number of open sessions.",
        RouteFigure::Opened => "Sessions opened since the start.",
        RouteFigure::TakeOvers => "How often a standby became the active publisher.",
        RouteFigure::Expected => "1 for a route that is expected to be on air.",
        RouteFigure::Absent =>
            "How long a route that is expected to be on air has had no active publisher, else 0.",
        RouteFigure::RefusedFull => "Conclusions refused with 1003: no slot is free.",
        RouteFigure::RefusedReserved =>
            "Conclusions refused with 1003: the free slots are reserved for publishers.",
        RouteFigure::RefusedAddress =>
            "Conclusions refused with 1003: the address has all its sessions.",
    }
}

/// The type of a family, as the format names it.
pub(crate) fn figure_kind(figure: RouteFigure) -> &'static str
    ensures { result.now ≡ figure_kind figure }
{
    match figure {
        RouteFigure::Allowed | RouteFigure::Expected | RouteFigure::Absent => "gauge",
        _ => "counter",
    }
}

/// How many conclusions a route refused with 1003, by this limit.
fn limit_figure(figure: RouteFigure, limits: &LimitCounts) -> Option<u64>
    ensures { result ≡ limit_figure figure limits.now }
{
    match figure {
        RouteFigure::RefusedFull => Some(limits.sessions),
        RouteFigure::RefusedReserved => Some(limits.reserved),
        RouteFigure::RefusedAddress => Some(limits.sessions_per_address),
        _ => None,
    }
}

/// 1 for a route of which it is expected to be on air.
fn one_if_some(expectation: &Option<Expectation>) -> Option<u64>
    ensures { result ≡ one_if_some expectation.now }
{
    match expectation {
        Some(_) => Some(1),
        None => None,
    }
}

/// For how many seconds such a route has had no active publisher.
fn absent_if(expectation: &Option<Expectation>) -> Option<u64>
    ensures { result ≡ absent_if expectation.now }
{
    match expectation {
        Some(expectation) => Some(expectation.seconds_absent()),
        None => None,
    }
}

/// This of a route; None if it isn't known.
pub(crate) fn route_figure(figure: RouteFigure, route: &RouteStatus) -> Option<u64>
    ensures { result ≡ route_figure figure route.now }
{
    match figure {
        RouteFigure::Allowed => Some(u64::from(route.sessions_allowed)),
        RouteFigure::Opened => Some(route.opened),
        RouteFigure::TakeOvers => route.take_overs,
        RouteFigure::Expected => one_if_some(&route.expectation),
        RouteFigure::Absent => absent_if(&route.expectation),
        _ => match &route.limits {
            Some(limits) => limit_figure(figure, limits),
            None => None,
        },
    }
}
