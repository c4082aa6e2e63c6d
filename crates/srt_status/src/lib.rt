//! The texts and the HTTP of the status page of a gateway that runs, with no socket and no thread: the metrics for
//! Prometheus, the status for programs, the page for people, and the requests and responses that carry them.
//!
//! It reads nothing of the gateway: its caller passes in snapshots. A body is allocated.
//!
//! Types: [`GatewayStatus`] (`gateway.rt`) and [`RouteStatus`] (`route_status.rt`), the snapshots; [`Page`] (`paths.rt`),
//! what each HTTP path shows; [`Request`] (`request.rt`); [`Connection`] (`connection.rt`), the state of one connection;
//! [`EventRing`] (`events.rt`), the last lines of the log, and [`RouteHistory`] (`history.rt`), the last hour of a route,
//! both in fixed memory; [`Expectation`] (`expectation.rt`), that a route is on air. A session is an
//! `srt_route::SessionView`, the poller's counters are an `srt_supervision::Report`.
//!
//! Calls: [`put_metrics`] (`metrics.rt`) and [`put_json`] (`json.rt`) put the snapshots into a text, [`request_in`] reads
//! a request, and [`respond`] (`response.rt`) makes the response to it. The names, the help and the values of all
//! metrics are in `figures.rt`, those of the process in `process.rt`, labels in `labels.rt`; the parts of a text are in
//! `text.rt` and `peers.rt`, and [`OVERVIEW`], the page for people, in `page.rt`.
#![tactic(auto)]

mod connection;
mod events;
mod expectation;
mod figures;
mod gateway;
mod history;
mod json;
mod labels;
pub mod laws;
mod metrics;
mod page;
mod paths;
mod peers;
mod process;
mod request;
mod response;
mod route_status;
mod text;

pub use connection::Connection;
pub use events::{Event, EventRing, MAX_EVENT_TEXT, MAX_EVENTS, MAX_REFUSALS_IN_A_ROW};
pub use expectation::{Expectation, expected_if};
pub use gateway::{CauseCounts, ChangeCounts, GatewayStatus, ProcessUse, RefusalCounts};
pub use history::{HISTORY_MINUTES, Minute, RouteHistory, round_trip_in};
pub use json::put_json;
pub use metrics::put_metrics;
pub use page::OVERVIEW;
pub use paths::Page;
pub use request::{Method, Request, request_in};
pub use response::respond;
pub use route_status::{EndCounts, LimitCounts, RouteStatus};

#[cfg(test)]
mod expectation_tests;
#[cfg(test)]
mod recent_tests;
#[cfg(test)]
mod tests;
