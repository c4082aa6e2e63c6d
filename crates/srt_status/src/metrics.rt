//! The page of figures: the text format of Prometheus, version 0.0.4.

ghost use Rattle.std.specs.Prelude.{◌≡◌, ◌++◌, OnOk, string_bytes};
ghost use Rattle.std.specs.List.{flat_map};
ghost use Rattle.srt_status.specs.Metrics.{lobby_start, route_prefix, refusals_name, sessions_name, session_prefix, if_some, head_line};
ghost use Rattle.srt_status.specs.Metrics.{head_text, total_text, total_family, build_text, reason_labels, lobby_refusal, lobby_text, route_label};
ghost use Rattle.srt_status.specs.Metrics.{figure_sample, figure_text, figure_family, route_refusal, route_refusals, refusals_text};
ghost use Rattle.srt_status.specs.Metrics.{role_label, plays, has_role, open_sessions, sessions_sample, route_sessions, sessions_text};
ghost use Rattle.srt_status.specs.Metrics.{count_sample, route_count, count_family, session_labels, session_count_sample};
ghost use Rattle.srt_status.specs.Metrics.{session_count_text, slot_count, route_session_counts, session_count_family, gauge_sample};
ghost use Rattle.srt_status.specs.Metrics.{session_gauge_text, slot_gauge, route_gauges, gauge_family, gateway_metrics, route_metrics};
ghost use Rattle.srt_status.specs.Metrics.{session_metrics, metrics_of, lobby_refusals, totals_text, figures_text, counts_text};
ghost use Rattle.srt_status.specs.Metrics.{session_counts_text, gauges_text, cause_start, lobby_cause, lobby_causes, causes_text};
ghost use Rattle.srt_status.specs.Metrics.{process_head, process_text, process_family, process_metrics, ends_name, end_sample};
ghost use Rattle.srt_status.specs.Metrics.{end_samples, route_ends, ends_text};

use crate::figures::{
    Amount, COUNTS, Count, GAUGES, Gauge, REASONS, ROUTE_FIGURES, RouteFigure, TOTALS, Total,
    count_help, count_name, figure_help, figure_kind, figure_name, gauge_amount, gauge_help,
    gauge_name, publisher_count, refusal_count, route_figure, session_count, subscriber_count,
    total_help, total_kind, total_name, total_value,
};
use crate::gateway::{CauseCounts, GatewayStatus, RefusalCounts};
use crate::labels::{
    CAUSES, Cause, ENDINGS, Ending, cause_count, cause_label, end_count, end_label,
};
use crate::peers::put_peer;
use crate::process::{
    PROCESS_FIGURES, ProcessFigure, process_amount, process_help, process_kind, process_name,
};
use crate::route_status::{EndCounts, RouteStatus};
use crate::text::{put, put_amount, put_id, put_name, put_number};
use srt_hs::RefusalCode;
use srt_route::SessionView;
use srt_types::Role;
use std::alloc::AllocError;

/// Puts a line of the head of a family.
#[tactic(auto, using(crate::proofs::Puts::joined), unfolding(crate::specs::Metrics::head_line))]
fn put_head_line(
    out: &mut Vec<u8>,
    start: &[u8],
    prefix: &str,
    name: &str,
    rest: &str,
) -> Result<(), AllocError>
    ensures { OnOk result (out.new.items ≡ out.old.items ++ head_line start.now prefix.now name.now rest.now) }
{
    put(out, start)?;
    put(out, prefix.as_bytes())?;
    put(out, name.as_bytes())?;
    put(out, b" ")?;
    put(out, rest.as_bytes())?;
    put(out, b"\n")
}

/// Puts the help and the type of a family.
#[tactic(auto, using(crate::proofs::Puts::joined), unfolding(crate::specs::Metrics::head_text))]
fn put_head(
    out: &mut Vec<u8>,
    prefix: &str,
    name: &str,
    help: &str,
    kind: &str,
) -> Result<(), AllocError>
    ensures { OnOk result (out.new.items ≡ out.old.items ++ head_text prefix.now name.now help.now kind.now) }
{
    put_head_line(out, b"# HELP srtgw_", prefix, name, help)?;
    put_head_line(out, b"# TYPE srtgw_", prefix, name, kind)
}

/// Puts a value of the gateway.
#[tactic(auto, using(crate::proofs::Puts::joined), unfolding(crate::specs::Metrics::total_text))]
fn put_total(out: &mut Vec<u8>, total: Total, value: u64) -> Result<(), AllocError>
    ensures { OnOk result (out.new.items ≡ out.old.items ++ total_text total value) }
{
    put_head(
        out,
        "",
        total_name(total),
        total_help(total),
        total_kind(total),
    )?;
    put(out, b"srtgw_")?;
    put(out, total_name(total).as_bytes())?;
    put(out, b" ")?;
    put_number(out, value)?;
    put(out, b"\n")
}

/// Puts one family of the gateway, if its value is known.
#[tactic(auto, unfolding(crate::specs::Metrics::total_family))]
fn put_total_family(
    out: &mut Vec<u8>,
    gateway: &GatewayStatus<'_>,
    total: Total,
) -> Result<(), AllocError>
    ensures { OnOk result (out.new.items ≡ out.old.items ++ total_family gateway.now total) }
{
    match total_value(total, gateway) {
        Some(value) => put_total(out, total, value),
        None => put(out, b""),
    }
}

/// Puts these families of the gateway.
#[tactic(auto, using(crate::proofs::Puts::one_more))]
fn put_totals(
    out: &mut Vec<u8>,
    gateway: &GatewayStatus<'_>,
    totals: &[Total],
) -> Result<(), AllocError>
    ensures { OnOk result (out.new.items ≡ out.old.items ++ flat_map (total_family gateway.now) totals.now) }
{
    for total in totals {
        put_total_family(out, gateway, *total)?;
    }
    Ok(())
}

#[tactic(auto, unfolding(crate::specs::Metrics::totals_text))]
fn put_all_totals(out: &mut Vec<u8>, gateway: &GatewayStatus<'_>) -> Result<(), AllocError>
    ensures { OnOk result (out.new.items ≡ out.old.items ++ totals_text gateway.now) }
{
    put_totals(out, gateway, &TOTALS)
}

/// Puts the version of the program.
#[tactic(auto, using(crate::proofs::Puts::joined), unfolding(crate::specs::Metrics::build_text))]
fn put_build(out: &mut Vec<u8>, version: &str) -> Result<(), AllocError>
    ensures { OnOk result (out.new.items ≡ out.old.items ++ build_text version.now) }
{
    put_head(
        out,
        "",
        "build_info",
        "The version of the program.",
        "gauge",
    )?;
    put(out, b"srtgw_build_info{version=\"")?;
    put_name(out, version)?;
    put(out, b"\"} 1\n")
}

/// Puts the number and the name of a reason for a refusal, as labels.
#[tactic(auto, using(crate::proofs::Puts::joined), unfolding(crate::specs::Metrics::reason_labels))]
fn put_reason_labels(out: &mut Vec<u8>, reason: RefusalCode) -> Result<(), AllocError>
    ensures { OnOk result (out.new.items ≡ out.old.items ++ reason_labels reason) }
{
    put(out, b"code=\"")?;
    put_number(out, u64::from(reason.number()))?;
    put(out, b"\",reason=\"")?;
    put(out, reason.name().as_bytes())?;
    put(out, b"\"} ")
}

#[tactic(auto, unfolding(crate::specs::Metrics::lobby_start))]
fn put_lobby_start(out: &mut Vec<u8>) -> Result<(), AllocError>
    ensures { OnOk result (out.new.items ≡ out.old.items ++ lobby_start) }
{
    put(out, b"srtgw_lobby_refusals_total{")
}

#[tactic(auto, using(crate::proofs::Puts::joined), unfolding(crate::specs::Metrics::lobby_refusal))]
fn put_lobby_refusal(
    out: &mut Vec<u8>,
    counts: &RefusalCounts,
    reason: RefusalCode,
) -> Result<(), AllocError>
    ensures { OnOk result (out.new.items ≡ out.old.items ++ lobby_refusal counts.now reason) }
{
    put_lobby_start(out)?;
    put_reason_labels(out, reason)?;
    put_number(out, refusal_count(reason, counts))?;
    put(out, b"\n")
}

#[tactic(auto, using(crate::proofs::Puts::one_more))]
fn put_lobby_refusals(
    out: &mut Vec<u8>,
    counts: &RefusalCounts,
    reasons: &[RefusalCode],
) -> Result<(), AllocError>
    ensures { OnOk result (out.new.items ≡ out.old.items ++ flat_map (lobby_refusal counts.now) reasons.now) }
{
    for reason in reasons {
        put_lobby_refusal(out, counts, *reason)?;
    }
    Ok(())
}

#[tactic(auto, unfolding(crate::specs::Metrics::lobby_refusals))]
fn put_all_lobby_refusals(out: &mut Vec<u8>, counts: &RefusalCounts) -> Result<(), AllocError>
    ensures { OnOk result (out.new.items ≡ out.old.items ++ lobby_refusals counts.now) }
{
    put_lobby_refusals(out, counts, &REASONS)
}

/// Puts the refusals of callers that belonged to no route.
#[tactic(auto, using(crate::proofs::Puts::joined), unfolding(crate::specs::Metrics::lobby_text))]
fn put_lobby(out: &mut Vec<u8>, counts: &RefusalCounts) -> Result<(), AllocError>
    ensures { OnOk result (out.new.items ≡ out.old.items ++ lobby_text counts.now) }
{
    put_head(
        out,
        "",
        "lobby_refusals_total",
        "Conclusions refused before they belonged to a route.",
        "counter",
    )?;
    put_all_lobby_refusals(out, counts)
}

#[tactic(auto, unfolding(crate::specs::Metrics::cause_start))]
fn put_cause_start(out: &mut Vec<u8>) -> Result<(), AllocError>
    ensures { OnOk result (out.new.items ≡ out.old.items ++ cause_start) }
{
    put(out, b"srtgw_lobby_refusal_causes_total{cause=\"")
}

#[tactic(auto, using(crate::proofs::Puts::joined), unfolding(crate::specs::Metrics::lobby_cause))]
fn put_lobby_cause(out: &mut Vec<u8>, counts: &CauseCounts, cause: Cause) -> Result<(), AllocError>
    ensures { OnOk result (out.new.items ≡ out.old.items ++ lobby_cause counts.now cause) }
{
    put_cause_start(out)?;
    put(out, cause_label(cause).as_bytes())?;
    put(out, b"\"} ")?;
    put_number(out, cause_count(cause, counts))?;
    put(out, b"\n")
}

#[tactic(auto, using(crate::proofs::Puts::one_more))]
fn put_lobby_causes(
    out: &mut Vec<u8>,
    counts: &CauseCounts,
    causes: &[Cause],
) -> Result<(), AllocError>
    ensures { OnOk result (out.new.items ≡ out.old.items ++ flat_map (lobby_cause counts.now) causes.now) }
{
    for cause in causes {
        put_lobby_cause(out, counts, *cause)?;
    }
    Ok(())
}

#[tactic(auto, unfolding(crate::specs::Metrics::lobby_causes))]
fn put_all_lobby_causes(out: &mut Vec<u8>, counts: &CauseCounts) -> Result<(), AllocError>
    ensures { OnOk result (out.new.items ≡ out.old.items ++ lobby_causes counts.now) }
{
    put_lobby_causes(out, counts, &CAUSES)
}

/// Puts the refusals with 1002 of callers that belonged to no route, by their cause.
#[tactic(auto, using(crate::proofs::Puts::joined), unfolding(crate::specs::Metrics::causes_text))]
fn put_causes(out: &mut Vec<u8>, counts: &CauseCounts) -> Result<(), AllocError>
    ensures { OnOk result (out.new.items ≡ out.old.items ++ causes_text counts.now) }
{
    put_head(
        out,
        "",
        "lobby_refusal_causes_total",
        "Conclusions refused with 1002 before they belonged to a route.",
        "counter",
    )?;
    put_all_lobby_causes(out, counts)
}

/// Puts the help and the type of a family of the process, whose name has no prefix.
#[tactic(auto, using(crate::proofs::Puts::joined), unfolding(crate::specs::Metrics::process_head))]
fn put_process_head(out: &mut Vec<u8>, figure: ProcessFigure) -> Result<(), AllocError>
    ensures { OnOk result (out.new.items ≡ out.old.items ++ process_head figure) }
{
    put_head_line(
        out,
        b"# HELP ",
        "",
        process_name(figure),
        process_help(figure),
    )?;
    put_head_line(
        out,
        b"# TYPE ",
        "",
        process_name(figure),
        process_kind(figure),
    )
}

#[tactic(auto, using(crate::proofs::Puts::joined), unfolding(crate::specs::Metrics::process_text))]
fn put_process_figure(
    out: &mut Vec<u8>,
    figure: ProcessFigure,
    amount: Amount,
) -> Result<(), AllocError>
    ensures { OnOk result (out.new.items ≡ out.old.items ++ process_text figure amount) }
{
    put_process_head(out, figure)?;
    put(out, process_name(figure).as_bytes())?;
    put(out, b" ")?;
    put_amount(out, amount)?;
    put(out, b"\n")
}

/// Puts one family of the process, if its value is known.
#[tactic(auto, unfolding(crate::specs::Metrics::process_family))]
fn put_process_family(
    out: &mut Vec<u8>,
    gateway: &GatewayStatus<'_>,
    figure: ProcessFigure,
) -> Result<(), AllocError>
    ensures { OnOk result (out.new.items ≡ out.old.items ++ process_family gateway.now figure) }
{
    match process_amount(figure, gateway) {
        Some(amount) => put_process_figure(out, figure, amount),
        None => put(out, b""),
    }
}

#[tactic(auto, using(crate::proofs::Puts::one_more))]
fn put_process_families(
    out: &mut Vec<u8>,
    gateway: &GatewayStatus<'_>,
    figures: &[ProcessFigure],
) -> Result<(), AllocError>
    ensures { OnOk result (out.new.items ≡ out.old.items ++ flat_map (process_family gateway.now) figures.now) }
{
    for figure in figures {
        put_process_family(out, gateway, *figure)?;
    }
    Ok(())
}

/// Puts the families of the process.
#[tactic(auto, unfolding(crate::specs::Metrics::process_metrics))]
fn put_process(out: &mut Vec<u8>, gateway: &GatewayStatus<'_>) -> Result<(), AllocError>
    ensures { OnOk result (out.new.items ≡ out.old.items ++ process_metrics gateway.now) }
{
    put_process_families(out, gateway, &PROCESS_FIGURES)
}

/// Puts a route as the first of the labels.
#[tactic(auto, using(crate::proofs::Puts::joined), unfolding(crate::specs::Metrics::route_label))]
fn put_route_label(out: &mut Vec<u8>, name: &str) -> Result<(), AllocError>
    ensures { OnOk result (out.new.items ≡ out.old.items ++ route_label name.now) }
{
    put(out, b"{route=\"")?;
    put_name(out, name)?;
    put(out, b"\"")
}

#[tactic(auto, unfolding(crate::specs::Metrics::route_prefix))]
fn put_route_prefix(out: &mut Vec<u8>) -> Result<(), AllocError>
    ensures { OnOk result (out.new.items ≡ out.old.items ++ route_prefix) }
{
    put(out, b"srtgw_route_")
}

#[tactic(auto, using(crate::proofs::Puts::joined), unfolding(crate::specs::Metrics::figure_sample))]
fn put_figure_sample(
    out: &mut Vec<u8>,
    name: &str,
    figure: RouteFigure,
    value: u64,
) -> Result<(), AllocError>
    ensures { OnOk result (out.new.items ≡ out.old.items ++ figure_sample name.now figure value) }
{
    put_route_prefix(out)?;
    put(out, figure_name(figure).as_bytes())?;
    put_route_label(out, name)?;
    put(out, b"} ")?;
    put_number(out, value)?;
    put(out, b"\n")
}

#[tactic(auto, unfolding(crate::specs::Metrics::figure_text))]
fn put_figure(out: &mut Vec<u8>, figure: RouteFigure, route: &RouteStatus) -> Result<(), AllocError>
    ensures { OnOk result (out.new.items ≡ out.old.items ++ figure_text figure route.now) }
{
    match route_figure(figure, route) {
        Some(value) => put_figure_sample(out, route.name.as_str(), figure, value),
        None => put(out, b""),
    }
}

#[tactic(auto, using(crate::proofs::Puts::one_more))]
fn put_figures(
    out: &mut Vec<u8>,
    figure: RouteFigure,
    routes: &[RouteStatus],
) -> Result<(), AllocError>
    ensures { OnOk result (out.new.items ≡ out.old.items ++ flat_map (figure_text figure) routes.now) }
{
    for route in routes {
        put_figure(out, figure, route)?;
    }
    Ok(())
}

#[tactic(auto, using(crate::proofs::Puts::joined), unfolding(crate::specs::Metrics::figure_family))]
fn put_figure_family(
    out: &mut Vec<u8>,
    routes: &[RouteStatus],
    figure: RouteFigure,
) -> Result<(), AllocError>
    ensures { OnOk result (out.new.items ≡ out.old.items ++ figure_family routes.now figure) }
{
    put_head(
        out,
        "route_",
        figure_name(figure),
        figure_help(figure),
        figure_kind(figure),
    )?;
    put_figures(out, figure, routes)
}

/// Puts these families of all routes.
#[tactic(auto, using(crate::proofs::Puts::one_more))]
fn put_figure_families(
    out: &mut Vec<u8>,
    routes: &[RouteStatus],
    figures: &[RouteFigure],
) -> Result<(), AllocError>
    ensures { OnOk result (out.new.items ≡ out.old.items ++ flat_map (figure_family routes.now) figures.now) }
{
    for figure in figures {
        put_figure_family(out, routes, *figure)?;
    }
    Ok(())
}

#[tactic(auto, unfolding(crate::specs::Metrics::figures_text))]
fn put_all_figures(out: &mut Vec<u8>, routes: &[RouteStatus]) -> Result<(), AllocError>
    ensures { OnOk result (out.new.items ≡ out.old.items ++ figures_text routes.now) }
{
    put_figure_families(out, routes, &ROUTE_FIGURES)
}

#[tactic(auto, unfolding(crate::specs::Metrics::refusals_name))]
fn put_refusals_name(out: &mut Vec<u8>) -> Result<(), AllocError>
    ensures { OnOk result (out.new.items ≡ out.old.items ++ refusals_name) }
{
    put(out, b"srtgw_route_refusals_total")
}

#[tactic(auto, using(crate::proofs::Puts::joined), unfolding(crate::specs::Metrics::route_refusal))]
fn put_route_refusal(
    out: &mut Vec<u8>,
    route: &RouteStatus,
    reason: RefusalCode,
) -> Result<(), AllocError>
    ensures { OnOk result (out.new.items ≡ out.old.items ++ route_refusal route.now reason) }
{
    put_refusals_name(out)?;
    put_route_label(out, route.name.as_str())?;
    put(out, b",")?;
    put_reason_labels(out, reason)?;
    put_number(out, refusal_count(reason, &route.refused))?;
    put(out, b"\n")
}

#[tactic(auto, using(crate::proofs::Puts::one_more))]
fn put_refusals_of(
    out: &mut Vec<u8>,
    route: &RouteStatus,
    reasons: &[RefusalCode],
) -> Result<(), AllocError>
    ensures { OnOk result (out.new.items ≡ out.old.items ++ flat_map (route_refusal route.now) reasons.now) }
{
    for reason in reasons {
        put_route_refusal(out, route, *reason)?;
    }
    Ok(())
}

#[tactic(auto, unfolding(crate::specs::Metrics::route_refusals))]
fn put_route_refusals(out: &mut Vec<u8>, route: &RouteStatus) -> Result<(), AllocError>
    ensures { OnOk result (out.new.items ≡ out.old.items ++ route_refusals route.now) }
{
    put_refusals_of(out, route, &REASONS)
}

#[tactic(auto, using(crate::proofs::Puts::one_more))]
fn put_all_refusals(out: &mut Vec<u8>, routes: &[RouteStatus]) -> Result<(), AllocError>
    ensures { OnOk result (out.new.items ≡ out.old.items ++ flat_map route_refusals routes.now) }
{
    for route in routes {
        put_route_refusals(out, route)?;
    }
    Ok(())
}

/// Puts what routes refused.
#[tactic(auto, using(crate::proofs::Puts::joined), unfolding(crate::specs::Metrics::refusals_text))]
fn put_refusals(out: &mut Vec<u8>, routes: &[RouteStatus]) -> Result<(), AllocError>
    ensures { OnOk result (out.new.items ≡ out.old.items ++ refusals_text routes.now) }
{
    put_head(
        out,
        "route_",
        "refusals_total",
        "Conclusions refused by a route.",
        "counter",
    )?;
    put_all_refusals(out, routes)
}

#[tactic(auto, unfolding(crate::specs::Metrics::ends_name))]
fn put_ends_name(out: &mut Vec<u8>) -> Result<(), AllocError>
    ensures { OnOk result (out.new.items ≡ out.old.items ++ ends_name) }
{
    put(out, b"srtgw_route_ends_total")
}

#[tactic(auto, using(crate::proofs::Puts::joined), unfolding(crate::specs::Metrics::end_sample))]
fn put_end(
    out: &mut Vec<u8>,
    name: &str,
    counts: &EndCounts,
    ending: Ending,
) -> Result<(), AllocError>
    ensures { OnOk result (out.new.items ≡ out.old.items ++ end_sample name.now counts.now ending) }
{
    put_ends_name(out)?;
    put_route_label(out, name)?;
    put(out, b",reason=\"")?;
    put(out, end_label(ending).as_bytes())?;
    put(out, b"\"} ")?;
    put_number(out, end_count(ending, counts))?;
    put(out, b"\n")
}

#[tactic(auto, using(crate::proofs::Puts::one_more))]
fn put_ends_of(
    out: &mut Vec<u8>,
    name: &str,
    counts: &EndCounts,
    endings: &[Ending],
) -> Result<(), AllocError>
    ensures { OnOk result (out.new.items ≡ out.old.items ++ flat_map (end_sample name.now counts.now) endings.now) }
{
    for ending in endings {
        put_end(out, name, counts, *ending)?;
    }
    Ok(())
}

#[tactic(auto, unfolding(crate::specs::Metrics::end_samples))]
fn put_all_ends_of(out: &mut Vec<u8>, name: &str, counts: &EndCounts) -> Result<(), AllocError>
    ensures { OnOk result (out.new.items ≡ out.old.items ++ end_samples name.now counts.now) }
{
    put_ends_of(out, name, counts, &ENDINGS)
}

#[tactic(auto, unfolding(crate::specs::Metrics::route_ends))]
fn put_route_ends(out: &mut Vec<u8>, route: &RouteStatus) -> Result<(), AllocError>
    ensures { OnOk result (out.new.items ≡ out.old.items ++ route_ends route.now) }
{
    match &route.ends {
        Some(counts) => put_all_ends_of(out, route.name.as_str(), counts),
        None => put(out, b""),
    }
}

#[tactic(auto, using(crate::proofs::Puts::one_more))]
fn put_all_ends(out: &mut Vec<u8>, routes: &[RouteStatus]) -> Result<(), AllocError>
    ensures { OnOk result (out.new.items ≡ out.old.items ++ flat_map route_ends routes.now) }
{
    for route in routes {
        put_route_ends(out, route)?;
    }
    Ok(())
}

/// Puts how the sessions of routes ended.
#[tactic(auto, using(crate::proofs::Puts::joined), unfolding(crate::specs::Metrics::ends_text))]
fn put_ends(out: &mut Vec<u8>, routes: &[RouteStatus]) -> Result<(), AllocError>
    ensures { OnOk result (out.new.items ≡ out.old.items ++ ends_text routes.now) }
{
    put_head(out, "route_", "ends_total", "Ended sessions.", "counter")?;
    put_all_ends(out, routes)
}

fn put_role_label(out: &mut Vec<u8>, role: Role) -> Result<(), AllocError>
    ensures { OnOk result (out.new.items ≡ out.old.items ++ role_label role) }
{
    match role {
        Role::Publish => put(out, b",role=\"publisher\""),
        Role::Request => put(out, b",role=\"subscriber\""),
    }
}

fn plays(wanted: Role, actual: Role) -> bool
    ensures { result ≡ plays wanted actual }
{
    match wanted {
        Role::Publish => match actual {
            Role::Publish => true,
            Role::Request => false,
        },
        Role::Request => match actual {
            Role::Publish => false,
            Role::Request => true,
        },
    }
}

/// Whether a slot has an open session of this role.
fn has_role(role: Role, slot: &Option<SessionView>) -> bool
    ensures { result ≡ has_role role slot.now }
{
    match slot {
        Some(session) => plays(role, session.role),
        None => false,
    }
}

/// How many open sessions of a route have this role.
#[tactic(auto, using(std::proofs::lemmas::List::Sums::count_by_more_yes, std::proofs::lemmas::List::Sums::count_by_more_no))]
fn open_sessions(role: Role, route: &RouteStatus) -> u64
    ensures { result ≡ open_sessions role route.now }
{
    let mut count = 0u64;
    for slot in &route.sessions {
        if has_role(role, slot) {
            count += 1;
        }
    }
    count
}

#[tactic(auto, unfolding(crate::specs::Metrics::sessions_name))]
fn put_sessions_name(out: &mut Vec<u8>) -> Result<(), AllocError>
    ensures { OnOk result (out.new.items ≡ out.old.items ++ sessions_name) }
{
    put(out, b"srtgw_route_sessions")
}

#[tactic(auto, using(crate::proofs::Puts::joined), unfolding(crate::specs::Metrics::sessions_sample))]
fn put_sessions_sample(out: &mut Vec<u8>, route: &RouteStatus, role: Role) -> Result<(), AllocError>
    ensures { OnOk result (out.new.items ≡ out.old.items ++ sessions_sample route.now role) }
{
    put_sessions_name(out)?;
    put_route_label(out, route.name.as_str())?;
    put_role_label(out, role)?;
    put(out, b"} ")?;
    put_number(out, open_sessions(role, route))?;
    put(out, b"\n")
}

#[tactic(auto, using(crate::proofs::Puts::joined), unfolding(crate::specs::Metrics::route_sessions))]
fn put_route_sessions(out: &mut Vec<u8>, route: &RouteStatus) -> Result<(), AllocError>
    ensures { OnOk result (out.new.items ≡ out.old.items ++ route_sessions route.now) }
{
    put_sessions_sample(out, route, Role::Publish)?;
    put_sessions_sample(out, route, Role::Request)
}

#[tactic(auto, using(crate::proofs::Puts::one_more))]
fn put_all_sessions(out: &mut Vec<u8>, routes: &[RouteStatus]) -> Result<(), AllocError>
    ensures { OnOk result (out.new.items ≡ out.old.items ++ flat_map route_sessions routes.now) }
{
    for route in routes {
        put_route_sessions(out, route)?;
    }
    Ok(())
}

/// Puts how many sessions are open.
#[tactic(auto, using(crate::proofs::Puts::joined), unfolding(crate::specs::Metrics::sessions_text))]
fn put_sessions(out: &mut Vec<u8>, routes: &[RouteStatus]) -> Result<(), AllocError>
    ensures { OnOk result (out.new.items ≡ out.old.items ++ sessions_text routes.now) }
{
    put_head(out, "route_", "sessions", "Open sessions.", "gauge")?;
    put_all_sessions(out, routes)
}

#[tactic(auto, using(crate::proofs::Puts::joined), unfolding(crate::specs::Metrics::count_sample))]
fn put_count_sample(
    out: &mut Vec<u8>,
    name: &str,
    role: Role,
    count: Count,
    value: u64,
) -> Result<(), AllocError>
    ensures { OnOk result (out.new.items ≡ out.old.items ++ count_sample name.now role count value) }
{
    put_route_prefix(out)?;
    put(out, count_name(count).as_bytes())?;
    put_route_label(out, name)?;
    put_role_label(out, role)?;
    put(out, b"} ")?;
    put_number(out, value)?;
    put(out, b"\n")
}

/// Puts a value, if there is one.
fn put_count_if(
    out: &mut Vec<u8>,
    name: &str,
    role: Role,
    count: Count,
    value: Option<u64>,
) -> Result<(), AllocError>
    ensures { OnOk result (out.new.items ≡ out.old.items ++ if_some (count_sample name.now role count) value) }
{
    match value {
        Some(value) => put_count_sample(out, name, role, count, value),
        None => put(out, b""),
    }
}

/// Puts what all sessions of a route counted.
#[tactic(auto, using(crate::proofs::Puts::joined), unfolding(crate::specs::Metrics::route_count))]
fn put_route_count(out: &mut Vec<u8>, count: Count, route: &RouteStatus) -> Result<(), AllocError>
    ensures { OnOk result (out.new.items ≡ out.old.items ++ route_count count route.now) }
{
    put_count_if(
        out,
        route.name.as_str(),
        Role::Publish,
        count,
        publisher_count(count, &route.totals.received),
    )?;
    put_count_if(
        out,
        route.name.as_str(),
        Role::Request,
        count,
        subscriber_count(count, &route.totals.queued, &route.totals.sent),
    )
}

#[tactic(auto, using(crate::proofs::Puts::one_more))]
fn put_counts(out: &mut Vec<u8>, count: Count, routes: &[RouteStatus]) -> Result<(), AllocError>
    ensures { OnOk result (out.new.items ≡ out.old.items ++ flat_map (route_count count) routes.now) }
{
    for route in routes {
        put_route_count(out, count, route)?;
    }
    Ok(())
}

#[tactic(auto, using(crate::proofs::Puts::joined), unfolding(crate::specs::Metrics::count_family))]
fn put_count_family(
    out: &mut Vec<u8>,
    routes: &[RouteStatus],
    count: Count,
) -> Result<(), AllocError>
    ensures { OnOk result (out.new.items ≡ out.old.items ++ count_family routes.now count) }
{
    put_head(
        out,
        "route_",
        count_name(count),
        count_help(count),
        "counter",
    )?;
    put_counts(out, count, routes)
}

/// Puts these counts of all routes.
#[tactic(auto, using(crate::proofs::Puts::one_more))]
fn put_count_families(
    out: &mut Vec<u8>,
    routes: &[RouteStatus],
    counts: &[Count],
) -> Result<(), AllocError>
    ensures { OnOk result (out.new.items ≡ out.old.items ++ flat_map (count_family routes.now) counts.now) }
{
    for count in counts {
        put_count_family(out, routes, *count)?;
    }
    Ok(())
}

#[tactic(auto, unfolding(crate::specs::Metrics::counts_text))]
fn put_all_counts(out: &mut Vec<u8>, routes: &[RouteStatus]) -> Result<(), AllocError>
    ensures { OnOk result (out.new.items ≡ out.old.items ++ counts_text routes.now) }
{
    put_count_families(out, routes, &COUNTS)
}

/// Puts an open session as labels.
#[tactic(auto, using(crate::proofs::Puts::joined), unfolding(crate::specs::Metrics::session_labels))]
fn put_session_labels(
    out: &mut Vec<u8>,
    name: &str,
    session: &SessionView,
) -> Result<(), AllocError>
    ensures { OnOk result (out.new.items ≡ out.old.items ++ session_labels name.now session.now) }
{
    put_route_label(out, name)?;
    put_role_label(out, session.role)?;
    put(out, b",session=\"")?;
    put_id(out, session.id)?;
    put(out, b"\",peer=\"")?;
    put_peer(out, &session.peer)?;
    put(out, b"\"} ")
}

#[tactic(auto, unfolding(crate::specs::Metrics::session_prefix))]
fn put_session_prefix(out: &mut Vec<u8>) -> Result<(), AllocError>
    ensures { OnOk result (out.new.items ≡ out.old.items ++ session_prefix) }
{
    put(out, b"srtgw_session_")
}

#[tactic(auto, using(crate::proofs::Puts::joined), unfolding(crate::specs::Metrics::session_count_sample))]
fn put_session_count_sample(
    out: &mut Vec<u8>,
    name: &str,
    session: &SessionView,
    count: Count,
    value: u64,
) -> Result<(), AllocError>
    ensures { OnOk result (out.new.items ≡ out.old.items ++ session_count_sample name.now session.now count value) }
{
    put_session_prefix(out)?;
    put(out, count_name(count).as_bytes())?;
    put_session_labels(out, name, session)?;
    put_number(out, value)?;
    put(out, b"\n")
}

fn put_session_count(
    out: &mut Vec<u8>,
    name: &str,
    count: Count,
    session: &SessionView,
) -> Result<(), AllocError>
    ensures { OnOk result (out.new.items ≡ out.old.items ++ session_count_text name.now count session.now) }
{
    match session_count(count, session) {
        Some(value) => put_session_count_sample(out, name, session, count, value),
        None => put(out, b""),
    }
}

#[tactic(auto, unfolding(crate::specs::Metrics::slot_count))]
fn put_slot_count(
    out: &mut Vec<u8>,
    name: &str,
    count: Count,
    slot: &Option<SessionView>,
) -> Result<(), AllocError>
    ensures { OnOk result (out.new.items ≡ out.old.items ++ slot_count name.now count slot.now) }
{
    match slot {
        Some(session) => put_session_count(out, name, count, session),
        None => put(out, b""),
    }
}

/// Puts this count of the open sessions of a route.
#[tactic(auto, using(crate::proofs::Puts::one_more), unfolding(crate::specs::Metrics::route_session_counts))]
fn put_route_session_counts(
    out: &mut Vec<u8>,
    count: Count,
    route: &RouteStatus,
) -> Result<(), AllocError>
    ensures { OnOk result (out.new.items ≡ out.old.items ++ route_session_counts count route.now) }
{
    for slot in &route.sessions {
        put_slot_count(out, route.name.as_str(), count, slot)?;
    }
    Ok(())
}

#[tactic(auto, using(crate::proofs::Puts::one_more))]
fn put_session_counts(
    out: &mut Vec<u8>,
    count: Count,
    routes: &[RouteStatus],
) -> Result<(), AllocError>
    ensures { OnOk result (out.new.items ≡ out.old.items ++ flat_map (route_session_counts count) routes.now) }
{
    for route in routes {
        put_route_session_counts(out, count, route)?;
    }
    Ok(())
}

#[tactic(auto, using(crate::proofs::Puts::joined), unfolding(crate::specs::Metrics::session_count_family))]
fn put_session_count_family(
    out: &mut Vec<u8>,
    routes: &[RouteStatus],
    count: Count,
) -> Result<(), AllocError>
    ensures { OnOk result (out.new.items ≡ out.old.items ++ session_count_family routes.now count) }
{
    put_head(
        out,
        "session_",
        count_name(count),
        count_help(count),
        "counter",
    )?;
    put_session_counts(out, count, routes)
}

/// Puts these counts of all open sessions.
#[tactic(auto, using(crate::proofs::Puts::one_more))]
fn put_session_count_families(
    out: &mut Vec<u8>,
    routes: &[RouteStatus],
    counts: &[Count],
) -> Result<(), AllocError>
    ensures { OnOk result (out.new.items ≡ out.old.items ++ flat_map (session_count_family routes.now) counts.now) }
{
    for count in counts {
        put_session_count_family(out, routes, *count)?;
    }
    Ok(())
}

#[tactic(auto, unfolding(crate::specs::Metrics::session_counts_text))]
fn put_all_session_counts(out: &mut Vec<u8>, routes: &[RouteStatus]) -> Result<(), AllocError>
    ensures { OnOk result (out.new.items ≡ out.old.items ++ session_counts_text routes.now) }
{
    put_session_count_families(out, routes, &COUNTS)
}

#[tactic(auto, using(crate::proofs::Puts::joined), unfolding(crate::specs::Metrics::gauge_sample))]
fn put_gauge_sample(
    out: &mut Vec<u8>,
    name: &str,
    session: &SessionView,
    gauge: Gauge,
    amount: Amount,
) -> Result<(), AllocError>
    ensures { OnOk result (out.new.items ≡ out.old.items ++ gauge_sample name.now session.now gauge amount) }
{
    put_session_prefix(out)?;
    put(out, gauge_name(gauge).as_bytes())?;
    put_session_labels(out, name, session)?;
    put_amount(out, amount)?;
    put(out, b"\n")
}

fn put_session_gauge(
    out: &mut Vec<u8>,
    name: &str,
    moment: u64,
    gauge: Gauge,
    session: &SessionView,
) -> Result<(), AllocError>
    ensures { OnOk result (out.new.items ≡ out.old.items ++ session_gauge_text name.now moment gauge session.now) }
{
    match gauge_amount(gauge, moment, session) {
        Some(amount) => put_gauge_sample(out, name, session, gauge, amount),
        None => put(out, b""),
    }
}

#[tactic(auto, unfolding(crate::specs::Metrics::slot_gauge))]
fn put_slot_gauge(
    out: &mut Vec<u8>,
    name: &str,
    moment: u64,
    gauge: Gauge,
    slot: &Option<SessionView>,
) -> Result<(), AllocError>
    ensures { OnOk result (out.new.items ≡ out.old.items ++ slot_gauge name.now moment gauge slot.now) }
{
    match slot {
        Some(session) => put_session_gauge(out, name, moment, gauge, session),
        None => put(out, b""),
    }
}

/// Puts this state of the open sessions of a route.
#[tactic(auto, using(crate::proofs::Puts::one_more), unfolding(crate::specs::Metrics::route_gauges))]
fn put_route_gauges(
    out: &mut Vec<u8>,
    moment: u64,
    gauge: Gauge,
    route: &RouteStatus,
) -> Result<(), AllocError>
    ensures { OnOk result (out.new.items ≡ out.old.items ++ route_gauges moment gauge route.now) }
{
    for slot in &route.sessions {
        put_slot_gauge(out, route.name.as_str(), moment, gauge, slot)?;
    }
    Ok(())
}

#[tactic(auto, using(crate::proofs::Puts::one_more))]
fn put_gauges(
    out: &mut Vec<u8>,
    moment: u64,
    gauge: Gauge,
    routes: &[RouteStatus],
) -> Result<(), AllocError>
    ensures { OnOk result (out.new.items ≡ out.old.items ++ flat_map (route_gauges moment gauge) routes.now) }
{
    for route in routes {
        put_route_gauges(out, moment, gauge, route)?;
    }
    Ok(())
}

#[tactic(auto, using(crate::proofs::Puts::joined), unfolding(crate::specs::Metrics::gauge_family))]
fn put_gauge_family(
    out: &mut Vec<u8>,
    moment: u64,
    routes: &[RouteStatus],
    gauge: Gauge,
) -> Result<(), AllocError>
    ensures { OnOk result (out.new.items ≡ out.old.items ++ gauge_family moment routes.now gauge) }
{
    put_head(
        out,
        "session_",
        gauge_name(gauge),
        gauge_help(gauge),
        "gauge",
    )?;
    put_gauges(out, moment, gauge, routes)
}

/// Puts these states of all open sessions.
#[tactic(auto, using(crate::proofs::Puts::one_more))]
fn put_gauge_families(
    out: &mut Vec<u8>,
    moment: u64,
    routes: &[RouteStatus],
    gauges: &[Gauge],
) -> Result<(), AllocError>
    ensures { OnOk result (out.new.items ≡ out.old.items ++ flat_map (gauge_family moment routes.now) gauges.now) }
{
    for gauge in gauges {
        put_gauge_family(out, moment, routes, *gauge)?;
    }
    Ok(())
}

#[tactic(auto, unfolding(crate::specs::Metrics::gauges_text))]
fn put_all_gauges(out: &mut Vec<u8>, moment: u64, routes: &[RouteStatus]) -> Result<(), AllocError>
    ensures { OnOk result (out.new.items ≡ out.old.items ++ gauges_text moment routes.now) }
{
    put_gauge_families(out, moment, routes, &GAUGES)
}

/// Puts the families of the gateway.
#[tactic(auto, using(crate::proofs::Puts::joined), unfolding(crate::specs::Metrics::gateway_metrics))]
fn put_gateway_metrics(out: &mut Vec<u8>, gateway: &GatewayStatus<'_>) -> Result<(), AllocError>
    ensures { OnOk result (out.new.items ≡ out.old.items ++ gateway_metrics gateway.now) }
{
    put_build(out, gateway.version)?;
    put_all_totals(out, gateway)?;
    put_lobby(out, &gateway.refused)?;
    put_causes(out, &gateway.causes)?;
    put_process(out, gateway)
}

/// Puts the families of all routes.
#[tactic(auto, using(crate::proofs::Puts::joined), unfolding(crate::specs::Metrics::route_metrics))]
fn put_route_metrics(out: &mut Vec<u8>, routes: &[RouteStatus]) -> Result<(), AllocError>
    ensures { OnOk result (out.new.items ≡ out.old.items ++ route_metrics routes.now) }
{
    put_sessions(out, routes)?;
    put_all_figures(out, routes)?;
    put_refusals(out, routes)?;
    put_ends(out, routes)?;
    put_all_counts(out, routes)
}

/// Puts the families of all open sessions.
#[tactic(auto, using(crate::proofs::Puts::joined), unfolding(crate::specs::Metrics::session_metrics))]
fn put_session_metrics(
    out: &mut Vec<u8>,
    moment: u64,
    routes: &[RouteStatus],
) -> Result<(), AllocError>
    ensures { OnOk result (out.new.items ≡ out.old.items ++ session_metrics moment routes.now) }
{
    put_all_gauges(out, moment, routes)?;
    put_all_session_counts(out, routes)
}

/// Puts the page of figures at the end of a text: those of the gateway, then those of its routes, then those of their
/// open sessions, each family in one piece. An error means that memory was refused. Linear in the number of routes.
#[tactic(auto, using(crate::proofs::Puts::joined))]
pub fn put_metrics(
    out: &mut Vec<u8>,
    gateway: &GatewayStatus<'_>,
    routes: &[RouteStatus],
) -> Result<(), AllocError>
    ensures { OnOk result (out.new.items ≡ out.old.items ++ metrics_of gateway.now routes.now) }
{
    put_gateway_metrics(out, gateway)?;
    put_route_metrics(out, routes)?;
    put_session_metrics(out, gateway.moment, routes)
}
