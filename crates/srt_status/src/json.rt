//! The status for programs: one JSON text. A figure has the name that it has among the figures, without its prefix, and
//! one that isn't known is left out.

ghost use Rattle.std.specs.Prelude.{◌≡◌, ◌++◌, ◌&&◌, true, is_none, OnOk};
ghost use Rattle.std.specs.List.{flat_map};
ghost use Rattle.srt_status.specs.Metrics.{if_some};
ghost use Rattle.srt_status.specs.Json.{route_name_start, publishers_start, subscribers_start, number_json, amount_json, total_json};
ghost use Rattle.srt_status.specs.Json.{refusal_json, publishers_json, subscribers_json, session_count_json, gauge_json, role_json};
ghost use Rattle.srt_status.specs.Json.{session_start, session_json, comma, slot_json, slots_json, mode_json, figure_json, route_start};
ghost use Rattle.srt_status.specs.Json.{route_counts, route_json, next_route_json, routes_json, version_start, version_json, gateway_json};
ghost use Rattle.srt_status.specs.Json.{json_of, totals_json, refusals_json, all_publishers_json, all_subscribers_json};
ghost use Rattle.srt_status.specs.Json.{session_counts_json, gauges_json, figures_json, process_figure_json, process_json};
ghost use Rattle.srt_status.specs.Json.{end_json, all_ends_json, ends_json};

use crate::figures::{
    Amount, COUNTS, Count, GAUGES, Gauge, REASONS, ROUTE_FIGURES, RouteFigure, TOTALS, Total,
    count_name, figure_name, gauge_amount, gauge_name, publisher_count, refusal_count,
    route_figure, session_count, subscriber_count, total_name, total_value,
};
use crate::gateway::{GatewayStatus, RefusalCounts};
use crate::labels::{ENDINGS, Ending, end_count, end_label};
use crate::peers::put_peer;
use crate::process::{PROCESS_FIGURES, ProcessFigure, process_amount, process_name};
use crate::route_status::{EndCounts, RouteStatus};
use crate::text::{put, put_amount, put_id, put_name, put_number};
use srt_hs::RefusalCode;
use srt_route::{SessionView, Totals};
use srt_types::{Mode, Role};
use std::alloc::AllocError;

/// Puts a member that isn't the first one of its object.
#[tactic(auto, using(crate::proofs::Puts::joined), unfolding(crate::specs::Json::number_json))]
fn put_number_member(out: &mut Vec<u8>, name: &str, value: u64) -> Result<(), AllocError>
    ensures { OnOk result (out.new.items ≡ out.old.items ++ number_json name.now value) }
{
    put(out, b",\"")?;
    put(out, name.as_bytes())?;
    put(out, b"\":")?;
    put_number(out, value)
}

/// Puts a member that isn't the first one of its object.
#[tactic(auto, using(crate::proofs::Puts::joined), unfolding(crate::specs::Json::amount_json))]
fn put_amount_member(out: &mut Vec<u8>, name: &str, amount: Amount) -> Result<(), AllocError>
    ensures { OnOk result (out.new.items ≡ out.old.items ++ amount_json name.now amount) }
{
    put(out, b",\"")?;
    put(out, name.as_bytes())?;
    put(out, b"\":")?;
    put_amount(out, amount)
}

#[tactic(auto, unfolding(crate::specs::Json::total_json))]
fn put_total(out: &mut Vec<u8>, gateway: &GatewayStatus<'_>, total: Total) -> Result<(), AllocError>
    ensures { OnOk result (out.new.items ≡ out.old.items ++ total_json gateway.now total) }
{
    match total_value(total, gateway) {
        Some(value) => put_number_member(out, total_name(total), value),
        None => put(out, b""),
    }
}

#[tactic(auto, using(crate::proofs::Puts::one_more))]
fn put_totals(
    out: &mut Vec<u8>,
    gateway: &GatewayStatus<'_>,
    totals: &[Total],
) -> Result<(), AllocError>
    ensures { OnOk result (out.new.items ≡ out.old.items ++ flat_map (total_json gateway.now) totals.now) }
{
    for total in totals {
        put_total(out, gateway, *total)?;
    }
    Ok(())
}

#[tactic(auto, unfolding(crate::specs::Json::totals_json))]
fn put_all_totals(out: &mut Vec<u8>, gateway: &GatewayStatus<'_>) -> Result<(), AllocError>
    ensures { OnOk result (out.new.items ≡ out.old.items ++ totals_json gateway.now) }
{
    put_totals(out, gateway, &TOTALS)
}

#[tactic(auto, using(crate::proofs::Puts::joined), unfolding(crate::specs::Json::refusal_json))]
fn put_refusal(
    out: &mut Vec<u8>,
    counts: &RefusalCounts,
    reason: RefusalCode,
) -> Result<(), AllocError>
    ensures { OnOk result (out.new.items ≡ out.old.items ++ refusal_json counts.now reason) }
{
    put(out, b",\"refusals_")?;
    put(out, reason.name().as_bytes())?;
    put(out, b"\":")?;
    put_number(out, refusal_count(reason, counts))
}

#[tactic(auto, using(crate::proofs::Puts::one_more))]
fn put_refusals(
    out: &mut Vec<u8>,
    counts: &RefusalCounts,
    reasons: &[RefusalCode],
) -> Result<(), AllocError>
    ensures { OnOk result (out.new.items ≡ out.old.items ++ flat_map (refusal_json counts.now) reasons.now) }
{
    for reason in reasons {
        put_refusal(out, counts, *reason)?;
    }
    Ok(())
}

#[tactic(auto, unfolding(crate::specs::Json::refusals_json))]
fn put_all_refusals(out: &mut Vec<u8>, counts: &RefusalCounts) -> Result<(), AllocError>
    ensures { OnOk result (out.new.items ≡ out.old.items ++ refusals_json counts.now) }
{
    put_refusals(out, counts, &REASONS)
}

#[tactic(auto, unfolding(crate::specs::Json::process_figure_json))]
fn put_process_figure(
    out: &mut Vec<u8>,
    gateway: &GatewayStatus<'_>,
    figure: ProcessFigure,
) -> Result<(), AllocError>
    ensures { OnOk result (out.new.items ≡ out.old.items ++ process_figure_json gateway.now figure) }
{
    match process_amount(figure, gateway) {
        Some(amount) => put_amount_member(out, process_name(figure), amount),
        None => put(out, b""),
    }
}

#[tactic(auto, using(crate::proofs::Puts::one_more))]
fn put_process_figures(
    out: &mut Vec<u8>,
    gateway: &GatewayStatus<'_>,
    figures: &[ProcessFigure],
) -> Result<(), AllocError>
    ensures { OnOk result (out.new.items ≡ out.old.items ++ flat_map (process_figure_json gateway.now) figures.now) }
{
    for figure in figures {
        put_process_figure(out, gateway, *figure)?;
    }
    Ok(())
}

/// Puts what is known of the process.
#[tactic(auto, unfolding(crate::specs::Json::process_json))]
fn put_process(out: &mut Vec<u8>, gateway: &GatewayStatus<'_>) -> Result<(), AllocError>
    ensures { OnOk result (out.new.items ≡ out.old.items ++ process_json gateway.now) }
{
    put_process_figures(out, gateway, &PROCESS_FIGURES)
}

#[tactic(auto, using(crate::proofs::Puts::joined), unfolding(crate::specs::Json::end_json))]
fn put_end(out: &mut Vec<u8>, counts: &EndCounts, ending: Ending) -> Result<(), AllocError>
    ensures { OnOk result (out.new.items ≡ out.old.items ++ end_json counts.now ending) }
{
    put(out, b",\"ends_")?;
    put(out, end_label(ending).as_bytes())?;
    put(out, b"\":")?;
    put_number(out, end_count(ending, counts))
}

#[tactic(auto, using(crate::proofs::Puts::one_more))]
fn put_ends_of(out: &mut Vec<u8>, counts: &EndCounts, endings: &[Ending]) -> Result<(), AllocError>
    ensures { OnOk result (out.new.items ≡ out.old.items ++ flat_map (end_json counts.now) endings.now) }
{
    for ending in endings {
        put_end(out, counts, *ending)?;
    }
    Ok(())
}

#[tactic(auto, unfolding(crate::specs::Json::all_ends_json))]
fn put_all_ends(out: &mut Vec<u8>, counts: &EndCounts) -> Result<(), AllocError>
    ensures { OnOk result (out.new.items ≡ out.old.items ++ all_ends_json counts.now) }
{
    put_ends_of(out, counts, &ENDINGS)
}

/// Puts how the sessions of a route ended, if that is known.
fn put_ends(out: &mut Vec<u8>, ends: &Option<EndCounts>) -> Result<(), AllocError>
    ensures { OnOk result (out.new.items ≡ out.old.items ++ ends_json ends.now) }
{
    match ends {
        Some(counts) => put_all_ends(out, counts),
        None => put(out, b""),
    }
}

#[tactic(auto, unfolding(crate::specs::Json::publishers_json))]
fn put_publishers_count(out: &mut Vec<u8>, totals: &Totals, count: Count) -> Result<(), AllocError>
    ensures { OnOk result (out.new.items ≡ out.old.items ++ publishers_json totals.now count) }
{
    match publisher_count(count, &totals.received) {
        Some(value) => put_number_member(out, count_name(count), value),
        None => put(out, b""),
    }
}

/// Puts these of what all publishers' sessions counted.
#[tactic(auto, using(crate::proofs::Puts::one_more))]
fn put_publishers(out: &mut Vec<u8>, totals: &Totals, counts: &[Count]) -> Result<(), AllocError>
    ensures { OnOk result (out.new.items ≡ out.old.items ++ flat_map (publishers_json totals.now) counts.now) }
{
    for count in counts {
        put_publishers_count(out, totals, *count)?;
    }
    Ok(())
}

#[tactic(auto, unfolding(crate::specs::Json::all_publishers_json))]
fn put_all_publishers(out: &mut Vec<u8>, totals: &Totals) -> Result<(), AllocError>
    ensures { OnOk result (out.new.items ≡ out.old.items ++ all_publishers_json totals.now) }
{
    put_publishers(out, totals, &COUNTS)
}

#[tactic(auto, unfolding(crate::specs::Json::subscribers_json))]
fn put_subscribers_count(out: &mut Vec<u8>, totals: &Totals, count: Count) -> Result<(), AllocError>
    ensures { OnOk result (out.new.items ≡ out.old.items ++ subscribers_json totals.now count) }
{
    match subscriber_count(count, &totals.queued, &totals.sent) {
        Some(value) => put_number_member(out, count_name(count), value),
        None => put(out, b""),
    }
}

/// Puts these of what all subscribers' sessions counted.
#[tactic(auto, using(crate::proofs::Puts::one_more))]
fn put_subscribers(out: &mut Vec<u8>, totals: &Totals, counts: &[Count]) -> Result<(), AllocError>
    ensures { OnOk result (out.new.items ≡ out.old.items ++ flat_map (subscribers_json totals.now) counts.now) }
{
    for count in counts {
        put_subscribers_count(out, totals, *count)?;
    }
    Ok(())
}

#[tactic(auto, unfolding(crate::specs::Json::all_subscribers_json))]
fn put_all_subscribers(out: &mut Vec<u8>, totals: &Totals) -> Result<(), AllocError>
    ensures { OnOk result (out.new.items ≡ out.old.items ++ all_subscribers_json totals.now) }
{
    put_subscribers(out, totals, &COUNTS)
}

#[tactic(auto, unfolding(crate::specs::Json::session_count_json))]
fn put_session_count(
    out: &mut Vec<u8>,
    session: &SessionView,
    count: Count,
) -> Result<(), AllocError>
    ensures { OnOk result (out.new.items ≡ out.old.items ++ session_count_json session.now count) }
{
    match session_count(count, session) {
        Some(value) => put_number_member(out, count_name(count), value),
        None => put(out, b""),
    }
}

/// Puts these counts of a session.
#[tactic(auto, using(crate::proofs::Puts::one_more))]
fn put_session_counts(
    out: &mut Vec<u8>,
    session: &SessionView,
    counts: &[Count],
) -> Result<(), AllocError>
    ensures { OnOk result (out.new.items ≡ out.old.items ++ flat_map (session_count_json session.now) counts.now) }
{
    for count in counts {
        put_session_count(out, session, *count)?;
    }
    Ok(())
}

#[tactic(auto, unfolding(crate::specs::Json::session_counts_json))]
fn put_all_session_counts(out: &mut Vec<u8>, session: &SessionView) -> Result<(), AllocError>
    ensures { OnOk result (out.new.items ≡ out.old.items ++ session_counts_json session.now) }
{
    put_session_counts(out, session, &COUNTS)
}

#[tactic(auto, unfolding(crate::specs::Json::gauge_json))]
fn put_gauge(
    out: &mut Vec<u8>,
    moment: u64,
    session: &SessionView,
    gauge: Gauge,
) -> Result<(), AllocError>
    ensures { OnOk result (out.new.items ≡ out.old.items ++ gauge_json moment session.now gauge) }
{
    match gauge_amount(gauge, moment, session) {
        Some(amount) => put_amount_member(out, gauge_name(gauge), amount),
        None => put(out, b""),
    }
}

/// Puts these states of a session.
#[tactic(auto, using(crate::proofs::Puts::one_more))]
fn put_gauges(
    out: &mut Vec<u8>,
    moment: u64,
    session: &SessionView,
    gauges: &[Gauge],
) -> Result<(), AllocError>
    ensures { OnOk result (out.new.items ≡ out.old.items ++ flat_map (gauge_json moment session.now) gauges.now) }
{
    for gauge in gauges {
        put_gauge(out, moment, session, *gauge)?;
    }
    Ok(())
}

#[tactic(auto, unfolding(crate::specs::Json::gauges_json))]
fn put_all_gauges(out: &mut Vec<u8>, moment: u64, session: &SessionView) -> Result<(), AllocError>
    ensures { OnOk result (out.new.items ≡ out.old.items ++ gauges_json moment session.now) }
{
    put_gauges(out, moment, session, &GAUGES)
}

/// Puts the beginning of a session's object, up to its ID.
fn put_role(out: &mut Vec<u8>, role: Role) -> Result<(), AllocError>
    ensures { OnOk result (out.new.items ≡ out.old.items ++ role_json role) }
{
    match role {
        Role::Publish => put(out, b"{\"role\":\"publisher\",\"session\":\""),
        Role::Request => put(out, b"{\"role\":\"subscriber\",\"session\":\""),
    }
}

/// Puts the beginning of an open session's object.
#[tactic(auto, using(crate::proofs::Puts::joined), unfolding(crate::specs::Json::session_start))]
fn put_session_start(out: &mut Vec<u8>, session: &SessionView) -> Result<(), AllocError>
    ensures { OnOk result (out.new.items ≡ out.old.items ++ session_start session.now) }
{
    put_role(out, session.role)?;
    put_id(out, session.id)?;
    put(out, b"\",\"peer\":\"")?;
    put_peer(out, &session.peer)?;
    put(out, b"\"")
}

/// Puts an open session.
#[tactic(auto, using(crate::proofs::Puts::joined), unfolding(crate::specs::Json::session_json))]
fn put_session(out: &mut Vec<u8>, moment: u64, session: &SessionView) -> Result<(), AllocError>
    ensures { OnOk result (out.new.items ≡ out.old.items ++ session_json moment session.now) }
{
    put_session_start(out, session)?;
    put_all_gauges(out, moment, session)?;
    put_all_session_counts(out, session)?;
    put(out, b"}")
}

/// Puts a comma, unless the next item is the first one.
fn put_comma(out: &mut Vec<u8>, first: bool) -> Result<(), AllocError>
    ensures { OnOk result (out.new.items ≡ out.old.items ++ comma first) }
{
    if first { put(out, b"") } else { put(out, b",") }
}

/// Puts the session of a slot, if one is open.
#[tactic(auto, using(crate::proofs::Puts::joined), unfolding(crate::specs::Json::slot_json))]
fn put_slot(
    out: &mut Vec<u8>,
    moment: u64,
    first: bool,
    slot: &Option<SessionView>,
) -> Result<(), AllocError>
    ensures { OnOk result (out.new.items ≡ out.old.items ++ slot_json moment first slot.now) }
{
    match slot {
        Some(session) => {
            put_comma(out, first)?;
            put_session(out, moment, session)
        }
        None => put(out, b""),
    }
}

/// Whether the next session is the first one, after this slot.
fn stays_first(first: bool, slot: &Option<SessionView>) -> bool
    ensures { result ≡ (first && is_none slot.now) }
{
    first && slot.is_none()
}

/// Puts the open sessions of a route.
#[tactic(auto, using(crate::proofs::Slots::next_slot, crate::proofs::Slots::no_slot_left))]
fn put_slots(
    out: &mut Vec<u8>,
    moment: u64,
    slots: &[Option<SessionView>],
) -> Result<(), AllocError>
    ensures { OnOk result (out.new.items ≡ out.old.items ++ slots_json moment true slots.now) }
{
    let mut first = true;
    for slot in slots {
        put_slot(out, moment, first, slot)?;
        first = stays_first(first, slot);
    }
    Ok(())
}

/// Puts the mode of a route, after its name.
fn put_mode(out: &mut Vec<u8>, mode: Mode) -> Result<(), AllocError>
    ensures { OnOk result (out.new.items ≡ out.old.items ++ mode_json mode) }
{
    match mode {
        Mode::Live => put(out, b"\",\"mode\":\"live\""),
        Mode::Buffer => put(out, b"\",\"mode\":\"buffer\""),
    }
}

#[tactic(auto, unfolding(crate::specs::Json::figure_json))]
fn put_figure(out: &mut Vec<u8>, route: &RouteStatus, figure: RouteFigure) -> Result<(), AllocError>
    ensures { OnOk result (out.new.items ≡ out.old.items ++ figure_json route.now figure) }
{
    match route_figure(figure, route) {
        Some(value) => put_number_member(out, figure_name(figure), value),
        None => put(out, b""),
    }
}

#[tactic(auto, using(crate::proofs::Puts::one_more))]
fn put_figures(
    out: &mut Vec<u8>,
    route: &RouteStatus,
    figures: &[RouteFigure],
) -> Result<(), AllocError>
    ensures { OnOk result (out.new.items ≡ out.old.items ++ flat_map (figure_json route.now) figures.now) }
{
    for figure in figures {
        put_figure(out, route, *figure)?;
    }
    Ok(())
}

#[tactic(auto, unfolding(crate::specs::Json::figures_json))]
fn put_all_figures(out: &mut Vec<u8>, route: &RouteStatus) -> Result<(), AllocError>
    ensures { OnOk result (out.new.items ≡ out.old.items ++ figures_json route.now) }
{
    put_figures(out, route, &ROUTE_FIGURES)
}

#[tactic(auto, unfolding(crate::specs::Json::route_name_start))]
pub(crate) fn put_route_name_start(out: &mut Vec<u8>) -> Result<(), AllocError>
    ensures { OnOk result (out.new.items ≡ out.old.items ++ route_name_start) }
{
    put(out, b"{\"name\":\"")
}

/// Puts the beginning of a route's object.
#[tactic(auto, using(crate::proofs::Puts::joined), unfolding(crate::specs::Json::route_start))]
fn put_route_start(out: &mut Vec<u8>, route: &RouteStatus) -> Result<(), AllocError>
    ensures { OnOk result (out.new.items ≡ out.old.items ++ route_start route.now) }
{
    put_route_name_start(out)?;
    put_name(out, route.name.as_str())?;
    put_mode(out, route.mode)?;
    put_all_figures(out, route)?;
    put_all_refusals(out, &route.refused)?;
    put_ends(out, &route.ends)
}

#[tactic(auto, unfolding(crate::specs::Json::publishers_start))]
fn put_publishers_start(out: &mut Vec<u8>) -> Result<(), AllocError>
    ensures { OnOk result (out.new.items ≡ out.old.items ++ publishers_start) }
{
    put(out, b",\"publishers\":{\"role\":\"publisher\"")
}

#[tactic(auto, unfolding(crate::specs::Json::subscribers_start))]
fn put_subscribers_start(out: &mut Vec<u8>) -> Result<(), AllocError>
    ensures { OnOk result (out.new.items ≡ out.old.items ++ subscribers_start) }
{
    put(out, b"},\"subscribers\":{\"role\":\"subscriber\"")
}

/// Puts what all sessions of a route counted.
#[tactic(auto, using(crate::proofs::Puts::joined), unfolding(crate::specs::Json::route_counts))]
fn put_route_counts(out: &mut Vec<u8>, route: &RouteStatus) -> Result<(), AllocError>
    ensures { OnOk result (out.new.items ≡ out.old.items ++ route_counts route.now) }
{
    put_publishers_start(out)?;
    put_all_publishers(out, &route.totals)?;
    put_subscribers_start(out)?;
    put_all_subscribers(out, &route.totals)?;
    put(out, b"}")
}

/// Puts a route.
#[tactic(auto, using(crate::proofs::Puts::joined), unfolding(crate::specs::Json::route_json))]
fn put_route(out: &mut Vec<u8>, moment: u64, route: &RouteStatus) -> Result<(), AllocError>
    ensures { OnOk result (out.new.items ≡ out.old.items ++ route_json moment route.now) }
{
    put_route_start(out, route)?;
    put_route_counts(out, route)?;
    put(out, b",\"sessions\":[")?;
    put_slots(out, moment, &route.sessions)?;
    put(out, b"]}")
}

/// Puts a route that isn't the first one.
#[tactic(auto, using(crate::proofs::Puts::joined), unfolding(crate::specs::Json::next_route_json))]
fn put_next_route(out: &mut Vec<u8>, moment: u64, route: &RouteStatus) -> Result<(), AllocError>
    ensures { OnOk result (out.new.items ≡ out.old.items ++ next_route_json moment route.now) }
{
    put(out, b",")?;
    put_route(out, moment, route)
}

/// Puts routes, none of which is the first one.
#[tactic(auto, using(crate::proofs::Puts::one_more))]
fn put_next_routes(out: &mut Vec<u8>, moment: u64, routes: &[RouteStatus]) -> Result<(), AllocError>
    ensures { OnOk result (out.new.items ≡ out.old.items ++ flat_map (next_route_json moment) routes.now) }
{
    for route in routes {
        put_next_route(out, moment, route)?;
    }
    Ok(())
}

/// Puts routes with commas between them.
#[tactic(auto, using(crate::proofs::Puts::joined))]
fn put_routes(out: &mut Vec<u8>, moment: u64, routes: &[RouteStatus]) -> Result<(), AllocError>
    ensures { OnOk result (out.new.items ≡ out.old.items ++ routes_json moment routes.now) }
{
    match routes {
        [] => put(out, b""),
        [route, rest @ ..] => {
            put_route(out, moment, route)?;
            put_next_routes(out, moment, rest)
        }
    }
}

#[tactic(auto, unfolding(crate::specs::Json::version_start))]
fn put_version_start(out: &mut Vec<u8>) -> Result<(), AllocError>
    ensures { OnOk result (out.new.items ≡ out.old.items ++ version_start) }
{
    put(out, b"{\"version\":\"")
}

/// Puts the beginning of the status: the version of the program.
#[tactic(auto, using(crate::proofs::Puts::joined), unfolding(crate::specs::Json::version_json))]
fn put_version(out: &mut Vec<u8>, version: &str) -> Result<(), AllocError>
    ensures { OnOk result (out.new.items ≡ out.old.items ++ version_json version.now) }
{
    put_version_start(out)?;
    put_name(out, version)?;
    put(out, b"\"")
}

/// Puts the gateway as a whole.
#[tactic(auto, using(crate::proofs::Puts::joined), unfolding(crate::specs::Json::gateway_json))]
fn put_gateway(out: &mut Vec<u8>, gateway: &GatewayStatus<'_>) -> Result<(), AllocError>
    ensures { OnOk result (out.new.items ≡ out.old.items ++ gateway_json gateway.now) }
{
    put_version(out, gateway.version)?;
    put_all_totals(out, gateway)?;
    put_all_refusals(out, &gateway.refused)?;
    put_process(out, gateway)
}

/// Puts the status for programs at the end of a text: one JSON object with the gateway's members and its routes. An
/// error means that memory was refused. Linear in the number of routes.
#[tactic(auto, using(crate::proofs::Puts::joined))]
pub fn put_json(
    out: &mut Vec<u8>,
    gateway: &GatewayStatus<'_>,
    routes: &[RouteStatus],
) -> Result<(), AllocError>
    ensures { OnOk result (out.new.items ≡ out.old.items ++ json_of gateway.now routes.now) }
{
    put_gateway(out, gateway)?;
    put(out, b",\"routes\":[")?;
    put_routes(out, gateway.moment, routes)?;
    put(out, b"]}\n")
}
