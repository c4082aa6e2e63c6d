//! Responses of the status page.

ghost use Rattle.std.specs.Prelude.{◌≡◌, ◌++◌, OnOk, IfOk};
ghost use Rattle.srt_status.specs.Responses.{common_fields, protocol_text, status_line, head_text, body_text, response_text, plain_text};
ghost use Rattle.srt_status.specs.Responses.{health_text, overview_text, metrics_text, json_text, events_text, history_text, response_of};

use crate::events::{EventRing, put_events};
use crate::gateway::GatewayStatus;
use crate::history::put_histories;
use crate::json::put_json;
use crate::metrics::put_metrics;
use crate::paths::Page;
use crate::request::{Method, Request};
use crate::route_status::RouteStatus;
use crate::text::{put, put_number};
use std::alloc::{AllocError, Global};

/// The fields of a response for people that isn't a page.
const PLAIN: &str = "Content-Type: text/plain; charset=utf-8\r\n";

/// The fields of the page of metrics.
const FIGURES: &str = "Content-Type: text/plain; version=0.0.4; charset=utf-8\r\n";

/// The fields of the status for programs.
const JSON: &str = "Content-Type: application/json\r\n";

/// The fields of the page for people. Its script and its style are named by their SHA-256.
const HTML: &str =
    "Content-Type: text/html; charset=utf-8\r\nContent-Security-Policy: default-src 'none'; connect-src 'self'; script-src 'sha256-NhgY58z/y+XBDCBsHus6N9UhmwCg75jN1ZmxTQleeeE='; style-src 'sha256-nK2dqi/2RtZmX3ANv3feDJ4pZkEfAQjQhT7KhQfr5NM='; base-uri 'none'; form-action 'none'; frame-ancestors 'none'\r\n";

/// Puts the fields that all responses have.
#[tactic(auto, unfolding(crate::specs::Responses::common_fields))]
fn put_common(out: &mut Vec<u8>) -> Result<(), AllocError>
    ensures { OnOk result (out.new.items ≡ out.old.items ++ common_fields) }
{
    put(
        out,
        b"Cache-Control: no-store\r\nConnection: close\r\nX-Content-Type-Options: nosniff\r\n",
    )
}

#[tactic(auto, unfolding(crate::specs::Responses::protocol_text))]
fn put_protocol(out: &mut Vec<u8>) -> Result<(), AllocError>
    ensures { OnOk result (out.new.items ≡ out.old.items ++ protocol_text) }
{
    put(out, b"HTTP/1.1 ")
}

#[tactic(auto, using(crate::proofs::Puts::joined), unfolding(crate::specs::Responses::status_line))]
fn put_status_line(out: &mut Vec<u8>, status: &str) -> Result<(), AllocError>
    ensures { OnOk result (out.new.items ≡ out.old.items ++ status_line status.now) }
{
    put_protocol(out)?;
    put(out, status.as_bytes())?;
    put(out, b"\r\n")
}

/// Puts the head of a response whose body has this length, in bytes.
#[tactic(auto, using(crate::proofs::Puts::joined), unfolding(crate::specs::Responses::head_text))]
fn put_head(out: &mut Vec<u8>, status: &str, fields: &str, length: usize) -> Result<(), AllocError>
    ensures { OnOk result (out.new.items ≡ out.old.items ++ head_text status.now fields.now length) }
{
    put_status_line(out, status)?;
    put_common(out)?;
    put(out, fields.as_bytes())?;
    put(out, b"Content-Length: ")?;
    put_number(out, length as u64)?;
    put(out, b"\r\n\r\n")
}

/// Puts a body, unless the head alone is wanted.
fn put_body(out: &mut Vec<u8>, method: Method, body: &[u8]) -> Result<(), AllocError>
    ensures { OnOk result (out.new.items ≡ out.old.items ++ body_text method body.now) }
{
    match method {
        Method::Get => put(out, body),
        Method::Head => put(out, b""),
    }
}

/// A whole response.
#[tactic(auto, using(crate::proofs::Puts::joined), unfolding(crate::specs::Responses::response_text))]
fn response(
    alloc: Global,
    status: &str,
    fields: &str,
    method: Method,
    body: &[u8],
) -> Result<Vec<u8>, AllocError>
    ensures { IfOk result (λ text. text.items ≡ response_text status.now fields.now method body.now) }
{
    let mut out = Vec::new(alloc);
    put_head(&mut out, status, fields, body.len())?;
    put_body(&mut out, method, body)?;
    Ok(out)
}

/// A response that is a line of text.
#[tactic(auto, unfolding(crate::specs::Responses::plain_text))]
fn plain(alloc: Global, status: &str, method: Method, line: &[u8]) -> Result<Vec<u8>, AllocError>
    ensures { IfOk result (λ text. text.items ≡ plain_text status.now method line.now) }
{
    response(alloc, status, PLAIN, method, line)
}

/// Whether the gateway works.
#[tactic(auto, unfolding(crate::specs::Responses::health_text))]
fn health(alloc: Global, method: Method, polling: bool) -> Result<Vec<u8>, AllocError>
    ensures { IfOk result (λ text. text.items ≡ health_text method polling) }
{
    if polling {
        plain(alloc, "200 OK", method, b"ok\n")
    } else {
        plain(
            alloc,
            "503 Service Unavailable",
            method,
            b"no round within two seconds\n",
        )
    }
}

#[tactic(auto, unfolding(crate::specs::Responses::overview_text))]
fn overview(alloc: Global, method: Method, page: &[u8]) -> Result<Vec<u8>, AllocError>
    ensures { IfOk result (λ text. text.items ≡ overview_text method page.now) }
{
    response(alloc, "200 OK", HTML, method, page)
}

#[tactic(auto, unfolding(crate::specs::Responses::metrics_text))]
fn metrics(
    alloc: Global,
    method: Method,
    gateway: &GatewayStatus<'_>,
    routes: &[RouteStatus],
) -> Result<Vec<u8>, AllocError>
    ensures { IfOk result (λ text. text.items ≡ metrics_text method gateway.now routes.now) }
{
    let mut body = Vec::new(alloc);
    put_metrics(&mut body, gateway, routes)?;
    response(alloc, "200 OK", FIGURES, method, body.as_slice())
}

#[tactic(auto, unfolding(crate::specs::Responses::json_text))]
fn json(
    alloc: Global,
    method: Method,
    gateway: &GatewayStatus<'_>,
    routes: &[RouteStatus],
) -> Result<Vec<u8>, AllocError>
    ensures { IfOk result (λ text. text.items ≡ json_text method gateway.now routes.now) }
{
    let mut body = Vec::new(alloc);
    put_json(&mut body, gateway, routes)?;
    response(alloc, "200 OK", JSON, method, body.as_slice())
}

#[tactic(auto, unfolding(crate::specs::Responses::events_text))]
fn events(alloc: Global, method: Method, ring: &EventRing) -> Result<Vec<u8>, AllocError>
    ensures { IfOk result (λ text. text.items ≡ events_text method ring.now.events.items) }
{
    let mut body = Vec::new(alloc);
    put_events(&mut body, ring)?;
    response(alloc, "200 OK", JSON, method, body.as_slice())
}

#[tactic(auto, unfolding(crate::specs::Responses::history_text))]
fn history(
    alloc: Global,
    method: Method,
    moment: u64,
    routes: &[RouteStatus],
) -> Result<Vec<u8>, AllocError>
    ensures { IfOk result (λ text. text.items ≡ history_text method moment routes.now) }
{
    let mut body = Vec::new(alloc);
    put_histories(&mut body, moment, routes)?;
    response(alloc, "200 OK", JSON, method, body.as_slice())
}

/// Returns the response to a request, head and body. The page for people is passed in: [`OVERVIEW`](crate::OVERVIEW). The
/// only error is out of memory. Linear in the number of routes for the status, the metrics and the history.
pub fn respond(
    alloc: Global,
    request: Request,
    overview_page: &[u8],
    gateway: &GatewayStatus<'_>,
    routes: &[RouteStatus],
    ring: &EventRing,
) -> Result<Vec<u8>, AllocError>
    ensures { IfOk result (λ text. text.items ≡ response_of overview_page.now gateway.now routes.now ring.now.events.items request) }
{
    match request {
        Request::Page { method, page } => match page {
            Page::Overview => overview(alloc, method, overview_page),
            Page::Json => json(alloc, method, gateway, routes),
            Page::Metrics => metrics(alloc, method, gateway, routes),
            Page::Events => events(alloc, method, ring),
            Page::History => history(alloc, method, gateway.moment, routes),
            Page::Health => health(alloc, method, gateway.polling),
        },
        Request::Unknown { method } => plain(alloc, "404 Not Found", method, b"not found\n"),
        Request::NotAllowed => response(
            alloc,
            "405 Method Not Allowed",
            "Allow: GET, HEAD\r\n",
            Method::Get,
            b"",
        ),
        Request::Bad => plain(alloc, "400 Bad Request", Method::Get, b"bad request\n"),
        Request::TooLong => plain(
            alloc,
            "431 Request Header Fields Too Large",
            Method::Get,
            b"too long\n",
        ),
    }
}
