//! The last hour of a route, minute by minute, in fixed memory.

ghost use Rattle.std.specs.Prelude.{◌≡◌, ◌++◌, OnOk};
ghost use Rattle.std.specs.List.{flat_map};
ghost use Rattle.srt_status.specs.History.{no_history, with_minute, minute_after, noted, measured_trip, trip_if, trip_in, round_trip_in};
ghost use Rattle.srt_status.specs.History.{trip_json, minute_start, minute_json, place_json, next_place_json, places_json, history_start, route_history_json};
ghost use Rattle.srt_status.specs.History.{next_route_history_json, all_histories_json, present_start, histories_start};
ghost use Rattle.srt_status.specs.History.{histories_json};

use crate::figures::{round_trip_of, trip_amount};
use crate::json::put_route_name_start;
use crate::route_status::RouteStatus;
use crate::text::{put, put_name, put_number};
use srt_route::{SessionView, Traffic};
use std::alloc::AllocError;

/// The number of minutes in the history of a route.
pub const HISTORY_MINUTES: usize = 60;

/// The microseconds of a minute.
const MINUTE: u64 = 60_000_000;

/// The place of the last minute.
const LAST: usize = HISTORY_MINUTES - 1;

/// What a route did in a minute.
#[derive(Clone, Copy)]
pub struct Minute {
    /// Its number: it begins 60 times as many seconds after the start.
    number: u64,
    /// The bytes of payloads that its publishers' sessions received.
    bytes: u64,
    /// The packets that they reported lost.
    lost: u64,
    /// The round-trip time of the active publisher at its end, in microseconds; None if that isn't known.
    round_trip: Option<u32>,
}

/// The counters of a route when a minute began.
#[derive(Clone, Copy)]
struct MinuteStart {
    number: u64,
    bytes: u64,
    lost: u64,
}

/// The last [`HISTORY_MINUTES`] minutes of a route that are over, the newest last, and the beginning of the one that isn't.
/// Places of minutes before its first snapshot have none, and a minute without a snapshot has no place.
#[derive(Clone, Copy)]
pub struct RouteHistory {
    minutes: [Option<Minute>; HISTORY_MINUTES],
    start: Option<MinuteStart>,
}

/// The minute that began so, when the counters are these.
fn minute_after(start: MinuteStart, bytes: u64, lost: u64, round_trip: Option<u32>) -> Minute
    ensures { result ≡ minute_after start bytes lost round_trip }
{
    Minute {
        number: start.number,
        bytes: bytes.saturating_sub(start.bytes),
        lost: lost.saturating_sub(start.lost),
        round_trip,
    }
}

/// Puts a minute behind the others: the oldest one goes.
#[tactic(auto, using(crate::proofs::Minutes::put_last))]
fn put_minute(minutes: &mut [Option<Minute>; HISTORY_MINUTES], minute: Minute)
    ensures { minutes.new ≡ with_minute minutes.old minute }
{
    minutes.rotate_left(1);
    minutes[LAST] = Some(minute);
}

impl RouteHistory {
    /// Returns that of a route before its first snapshot.
    pub fn new() -> RouteHistory
        ensures { result ≡ no_history }
    {
        RouteHistory {
            minutes: [None; HISTORY_MINUTES],
            start: None,
        }
    }

    /// Notes a snapshot at this moment, in microseconds of the routes' clock: the sums of what all publishers' sessions of
    /// the route counted since it opened, and the round trip of the active one ([`round_trip_in`]). The first snapshot of a
    /// minute ends the one before: its figures are the differences from the snapshot that began it. The first minute begins
    /// with the route, whose counters begin at 0.
    pub fn note(&mut self, moment: u64, counts: &srt_pub::Counts, round_trip: Option<u32>)
        ensures { self.new ≡ noted self.old moment counts.now.bytes counts.now.reported_lost round_trip }
    {
        let number = moment / MINUTE;
        let Some(start) = self.start else {
            self.start = Some(MinuteStart {
                number,
                bytes: 0,
                lost: 0,
            });
            return;
        };
        if number <= start.number {
            return;
        }
        let minute = minute_after(start, counts.bytes, counts.reported_lost, round_trip);
        put_minute(&mut self.minutes, minute);
        self.start = Some(MinuteStart {
            number,
            bytes: counts.bytes,
            lost: counts.reported_lost,
        });
    }
}

/// The round-trip time of a session, in microseconds; None as long as nothing is measured.
fn measured_trip(traffic: &Traffic) -> Option<u32>
    ensures { result ≡ measured_trip traffic.now }
{
    let micros = round_trip_of(traffic);
    match trip_amount(traffic, micros) {
        Some(_) => Some(micros),
        None => None,
    }
}

/// The round-trip time of a slot's session if that is the active publisher's, in microseconds; None as long as nothing is
/// measured.
fn trip_in(slot: &Option<SessionView>) -> Option<u32>
    ensures { result ≡ trip_in slot.now }
{
    match slot {
        Some(session) => trip_if(session.is_active, &session.traffic),
        None => None,
    }
}

/// The round-trip time of a session that is the active publisher's.
fn trip_if(is_active: bool, traffic: &Traffic) -> Option<u32>
    ensures { result ≡ trip_if is_active traffic.now }
{
    if is_active {
        measured_trip(traffic)
    } else {
        None
    }
}

/// Returns the round-trip time of a route's active publisher, in microseconds. None without one, and as long as nothing is
/// measured.
#[tactic(auto, using(crate::proofs::Trips::found, crate::proofs::Trips::not_here, crate::proofs::Trips::nowhere))]
pub fn round_trip_in(sessions: &[Option<SessionView>]) -> Option<u32>
    ensures { result ≡ round_trip_in sessions.now }
{
    for slot in sessions {
        if let Some(micros) = trip_in(slot) {
            return Some(micros);
        }
    }
    None
}

/// Puts a round-trip time in microseconds.
fn put_trip(out: &mut Vec<u8>, round_trip: Option<u32>) -> Result<(), AllocError>
    ensures { OnOk result (out.new.items ≡ out.old.items ++ trip_json round_trip) }
{
    match round_trip {
        Some(micros) => put_number(out, u64::from(micros)),
        None => put(out, b"null"),
    }
}

/// Puts the number of a minute and its bytes.
#[tactic(auto, using(crate::proofs::Puts::joined), unfolding(crate::specs::History::minute_start))]
fn put_minute_start(out: &mut Vec<u8>, minute: &Minute) -> Result<(), AllocError>
    ensures { OnOk result (out.new.items ≡ out.old.items ++ minute_start minute.now) }
{
    put(out, b"[")?;
    put_number(out, minute.number)?;
    put(out, b",")?;
    put_number(out, minute.bytes)?;
    put(out, b",")
}

/// Puts a minute.
#[tactic(auto, using(crate::proofs::Puts::joined), unfolding(crate::specs::History::minute_json))]
fn put_minute_json(out: &mut Vec<u8>, minute: &Minute) -> Result<(), AllocError>
    ensures { OnOk result (out.new.items ≡ out.old.items ++ minute_json minute.now) }
{
    put_minute_start(out, minute)?;
    put_number(out, minute.lost)?;
    put(out, b",")?;
    put_trip(out, minute.round_trip)?;
    put(out, b"]")
}

/// Puts a place of a history.
fn put_place(out: &mut Vec<u8>, place: &Option<Minute>) -> Result<(), AllocError>
    ensures { OnOk result (out.new.items ≡ out.old.items ++ place_json place.now) }
{
    match place {
        Some(minute) => put_minute_json(out, minute),
        None => put(out, b"null"),
    }
}

/// Puts a place that isn't the first one.
#[tactic(auto, using(crate::proofs::Puts::joined), unfolding(crate::specs::History::next_place_json))]
fn put_next_place(out: &mut Vec<u8>, place: &Option<Minute>) -> Result<(), AllocError>
    ensures { OnOk result (out.new.items ≡ out.old.items ++ next_place_json place.now) }
{
    put(out, b",")?;
    put_place(out, place)
}

/// Puts places, none of which is the first one.
#[tactic(auto, using(crate::proofs::Puts::one_more))]
fn put_next_places(out: &mut Vec<u8>, places: &[Option<Minute>]) -> Result<(), AllocError>
    ensures { OnOk result (out.new.items ≡ out.old.items ++ flat_map next_place_json places.now) }
{
    for place in places {
        put_next_place(out, place)?;
    }
    Ok(())
}

/// Puts places with commas between them.
#[tactic(auto, using(crate::proofs::Puts::joined))]
fn put_places(out: &mut Vec<u8>, places: &[Option<Minute>]) -> Result<(), AllocError>
    ensures { OnOk result (out.new.items ≡ out.old.items ++ places_json places.now) }
{
    match places {
        [] => put(out, b""),
        [place, rest @ ..] => {
            put_place(out, place)?;
            put_next_places(out, rest)
        }
    }
}

/// Puts the beginning of a route's object.
#[tactic(auto, using(crate::proofs::Puts::joined), unfolding(crate::specs::History::history_start))]
fn put_history_start(out: &mut Vec<u8>, route: &RouteStatus) -> Result<(), AllocError>
    ensures { OnOk result (out.new.items ≡ out.old.items ++ history_start route.now) }
{
    put_route_name_start(out)?;
    put_name(out, route.name.as_str())?;
    put(out, b"\",\"minutes\":[")
}

/// Puts the history of a route.
#[tactic(auto, using(crate::proofs::Puts::joined), unfolding(crate::specs::History::route_history_json))]
fn put_route_history(out: &mut Vec<u8>, route: &RouteStatus) -> Result<(), AllocError>
    ensures { OnOk result (out.new.items ≡ out.old.items ++ route_history_json route.now) }
{
    put_history_start(out, route)?;
    put_places(out, &route.history.minutes)?;
    put(out, b"]}")
}

/// Puts the history of a route that isn't the first one.
#[tactic(auto, using(crate::proofs::Puts::joined), unfolding(crate::specs::History::next_route_history_json))]
fn put_next_route_history(out: &mut Vec<u8>, route: &RouteStatus) -> Result<(), AllocError>
    ensures { OnOk result (out.new.items ≡ out.old.items ++ next_route_history_json route.now) }
{
    put(out, b",")?;
    put_route_history(out, route)
}

/// Puts the histories of routes, none of which is the first one.
#[tactic(auto, using(crate::proofs::Puts::one_more))]
fn put_next_route_histories(out: &mut Vec<u8>, routes: &[RouteStatus]) -> Result<(), AllocError>
    ensures { OnOk result (out.new.items ≡ out.old.items ++ flat_map next_route_history_json routes.now) }
{
    for route in routes {
        put_next_route_history(out, route)?;
    }
    Ok(())
}

/// Puts the histories of routes with commas between them.
#[tactic(auto, using(crate::proofs::Puts::joined))]
fn put_route_histories(out: &mut Vec<u8>, routes: &[RouteStatus]) -> Result<(), AllocError>
    ensures { OnOk result (out.new.items ≡ out.old.items ++ all_histories_json routes.now) }
{
    match routes {
        [] => put(out, b""),
        [route, rest @ ..] => {
            put_route_history(out, route)?;
            put_next_route_histories(out, rest)
        }
    }
}

#[tactic(auto, unfolding(crate::specs::History::present_start))]
fn put_present_start(out: &mut Vec<u8>) -> Result<(), AllocError>
    ensures { OnOk result (out.new.items ≡ out.old.items ++ present_start) }
{
    put(out, b"{\"minute\":")
}

/// Puts the number of a minute, at the beginning of the histories.
#[tactic(auto, using(crate::proofs::Puts::joined), unfolding(crate::specs::History::histories_start))]
fn put_histories_start(out: &mut Vec<u8>, number: u64) -> Result<(), AllocError>
    ensures { OnOk result (out.new.items ≡ out.old.items ++ histories_start number) }
{
    put_present_start(out)?;
    put_number(out, number)?;
    put(out, b",\"routes\":[")
}

/// Puts the histories of all routes at the end of a text, as one JSON object with the number of the present minute. An error
/// means that memory was refused. Linear in the number of routes: at most 60 places of some 40 bytes for each.
#[tactic(auto, using(crate::proofs::Puts::joined), unfolding(crate::specs::History::histories_json))]
pub(crate) fn put_histories(
    out: &mut Vec<u8>,
    moment: u64,
    routes: &[RouteStatus],
) -> Result<(), AllocError>
    ensures { OnOk result (out.new.items ≡ out.old.items ++ histories_json moment routes.now) }
{
    put_histories_start(out, moment / MINUTE)?;
    put_route_histories(out, routes)?;
    put(out, b"]}\n")
}
