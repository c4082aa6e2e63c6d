//! The JSON object of each event.

ghost use Rattle.std.specs.Prelude.{◌≡◌, ◌++◌, [], OnOk, option_map};
ghost use Rattle.srt_types.specs.Access.{bytes_in as key_bytes};
ghost use Rattle.srt_log.specs.Objects.{kind_of, role_name, peer_member, id_member, caller_members, opened_members, reason_name};
ghost use Rattle.srt_log.specs.Objects.{counts_members, drift_members, clock_members, ended_members, trouble_name, troubled_members};
ghost use Rattle.srt_log.specs.Objects.{list_name, key_name, obstacle_name, cause_member, refused_members, limited_members, unseen_members};
ghost use Rattle.srt_log.specs.Objects.{started_members, stop_name, event_members, time_member, kind_member, bind_member, line_member};
ghost use Rattle.srt_log.specs.Objects.{object_text, absent_members, address_member, refused_again_members};
ghost use Rattle.srt_log.specs.Members.{text_member};
ghost use Rattle.srt_log.specs.Texts.{put};
ghost use Rattle.srt_log.specs.Events.{event_text};

use crate::config_objects::{config_kind, put_config};
use crate::counts::{bytes_in, lost_in, packets_in, resent_in};
use crate::events::{Caller, ClockDrift, EndReason, LogEvent, StopCause, Trouble};
use crate::line::Line;
use crate::members::{
    put, put_flag, put_micros, put_number, put_number_if, put_shown, put_signed, put_text,
};
use crate::peers::{put_ip, put_peer, put_socket};
use crate::writing::put_event;
use srt_route::Traffic;
use srt_types::{KeyLength, NotAdmitted, Peer, Role};
use std::alloc::AllocError;

/// The word for an event.
fn kind_of(event: LogEvent<'_>) -> &'static str
    ensures { result.now ≡ kind_of event.entry }
{
    match event {
        LogEvent::Started { .. } => "started",
        LogEvent::Opened { .. } => "opened",
        LogEvent::Ended { .. } => "ended",
        LogEvent::TookOver { .. } => "took_over",
        LogEvent::Troubled { .. } => "troubled",
        LogEvent::Refused { .. } => "refused",
        LogEvent::RefusedAgain { .. } => "refused_again",
        LogEvent::Limited { .. } => "limited",
        LogEvent::Unseen { .. } => "unseen",
        LogEvent::Absent { .. } => "absent",
        LogEvent::Config { event } => config_kind(event),
        LogEvent::Unblocked => "unblocked",
        LogEvent::Warned { .. } => "warning",
        LogEvent::SocketFaults { .. } => "socket_faults",
        LogEvent::KernelDrops { .. } => "kernel_drops",
        LogEvent::LeftOut { .. } => "left_out",
        LogEvent::StopRequested { .. } => "stop_requested",
        LogEvent::Stopped => "stopped",
    }
}

fn role_name(role: Role) -> &'static str
    ensures { result.now ≡ role_name role }
{
    match role {
        Role::Publish => "publisher",
        Role::Request => "subscriber",
    }
}

/// Puts an address and its port.
fn put_peer_member(out: &mut Vec<u8>, peer: Peer) -> Result<(), AllocError>
    ensures { OnOk result (out.new.items ≡ out.old.items ++ peer_member peer) }
{
    let mut piece = Line::new();
    put_peer(&mut piece, peer);
    put_text(out, b"peer", &piece.text)
}

/// Puts a socket ID.
fn put_id_member(out: &mut Vec<u8>, id: u32) -> Result<(), AllocError>
    ensures { OnOk result (out.new.items ≡ out.old.items ++ id_member id) }
{
    let mut piece = Line::new();
    piece.put_id(id);
    put_text(out, b"socket", &piece.text)
}

/// Puts the address of the gateway's socket.
fn put_bind(out: &mut Vec<u8>, ip: [u8; 16], port: u16) -> Result<(), AllocError>
    ensures { OnOk result (out.new.items ≡ out.old.items ++ bind_member ip port) }
{
    let mut piece = Line::new();
    put_socket(&mut piece, ip, port);
    put_text(out, b"bind", &piece.text)
}

/// Puts a session.
#[tactic(auto, using(crate::proofs::Growing::joined), unfolding(crate::specs::Objects::caller_members))]
fn put_caller(out: &mut Vec<u8>, caller: Caller<'_>) -> Result<(), AllocError>
    ensures { OnOk result (out.new.items ≡ out.old.items ++ caller_members caller.entry) }
{
    put_shown(out, b"route", caller.route)?;
    put_text(out, b"role", role_name(caller.role).as_bytes())?;
    put_peer_member(out, caller.peer)?;
    put_id_member(out, caller.id)
}

/// Returns the length of keys in bytes.
fn bytes_of_keys(key_length: Option<KeyLength>) -> Option<u32>
    ensures { result ≡ option_map key_bytes key_length }
{
    match key_length {
        Some(KeyLength::Aes128) => Some(16),
        Some(KeyLength::Aes192) => Some(24),
        Some(KeyLength::Aes256) => Some(32),
        None => None,
    }
}

#[tactic(auto, using(crate::proofs::Growing::joined), unfolding(crate::specs::Objects::opened_members))]
fn put_opened(
    out: &mut Vec<u8>,
    caller: Caller<'_>,
    standby: bool,
    latency_ms: Option<u32>,
    key_length: Option<KeyLength>,
) -> Result<(), AllocError>
    ensures { OnOk result (out.new.items ≡ out.old.items ++ opened_members caller.entry standby latency_ms key_length) }
{
    put_caller(out, caller)?;
    put_flag(out, b"standby", standby)?;
    put_number_if(out, b"latency_ms", latency_ms)?;
    put_number_if(out, b"key_length_bytes", bytes_of_keys(key_length))
}

fn reason_name(reason: EndReason) -> &'static str
    ensures { result.now ≡ reason_name reason }
{
    match reason {
        EndReason::Shutdown => "shutdown",
        EndReason::DrainedTooLong => "drained_too_long",
        EndReason::Silence => "silence",
        EndReason::WindowLost => "window_lost",
        EndReason::StreamEnd => "stream_end",
        EndReason::RouteClosed => "route_closed",
        EndReason::GatewayStops => "gateway_stops",
        EndReason::Unknown => "unknown",
    }
}

/// Puts what a session counted.
#[tactic(auto, using(crate::proofs::Growing::joined), unfolding(crate::specs::Objects::counts_members))]
fn put_counts(out: &mut Vec<u8>, traffic: &Traffic) -> Result<(), AllocError>
    ensures { OnOk result (out.new.items ≡ out.old.items ++ counts_members traffic.now) }
{
    put_number(out, b"packets", packets_in(traffic))?;
    put_number(out, b"bytes", bytes_in(traffic))?;
    put_number(out, b"lost", lost_in(traffic))?;
    put_number(out, b"resent", resent_in(traffic))
}

#[tactic(auto, using(crate::proofs::Growing::joined), unfolding(crate::specs::Objects::drift_members))]
fn put_drift(out: &mut Vec<u8>, clock: ClockDrift) -> Result<(), AllocError>
    ensures { OnOk result (out.new.items ≡ out.old.items ++ drift_members clock) }
{
    put_signed(out, b"clock_drift_ppm", clock.ppm)?;
    put_micros(out, b"clock_correction_us", clock.correction)?;
    Ok(())
}

/// Puts how a publisher's clock was followed, if it was.
fn put_clock(out: &mut Vec<u8>, clock: Option<ClockDrift>) -> Result<(), AllocError>
    ensures { OnOk result (out.new.items ≡ out.old.items ++ clock_members clock) }
{
    match clock {
        Some(drift) => put_drift(out, drift),
        None => put(out, b""),
    }
}

#[tactic(auto, using(crate::proofs::Growing::joined), unfolding(crate::specs::Objects::ended_members))]
fn put_ended(
    out: &mut Vec<u8>,
    caller: Caller<'_>,
    reason: EndReason,
    lasted_ms: u64,
    traffic: &Traffic,
    clock: Option<ClockDrift>,
) -> Result<(), AllocError>
    ensures { OnOk result (out.new.items ≡ out.old.items ++ ended_members caller.entry reason lasted_ms traffic.now clock) }
{
    put_caller(out, caller)?;
    put_text(out, b"reason", reason_name(reason).as_bytes())?;
    put_number(out, b"lasted_ms", lasted_ms)?;
    put_counts(out, traffic)?;
    put_clock(out, clock)
}

fn trouble_name(trouble: Trouble) -> &'static str
    ensures { result.now ≡ trouble_name trouble }
{
    match trouble {
        Trouble::Misdirected => "misdirected",
        Trouble::FullWindow => "full_window",
        Trouble::LatePackets => "late_packets",
    }
}

#[tactic(auto, using(crate::proofs::Growing::joined), unfolding(crate::specs::Objects::troubled_members))]
fn put_troubled(out: &mut Vec<u8>, caller: Caller<'_>, trouble: Trouble) -> Result<(), AllocError>
    ensures { OnOk result (out.new.items ≡ out.old.items ++ troubled_members caller.entry trouble) }
{
    put_caller(out, caller)?;
    put_text(out, b"trouble", trouble_name(trouble).as_bytes())
}

/// The key of a role's list.
fn list_name(role: Role) -> &'static str
    ensures { result.now ≡ list_name role }
{
    match role {
        Role::Publish => "publish_from",
        Role::Request => "request_from",
    }
}

/// The key of a role's key.
fn key_name(role: Role) -> &'static str
    ensures { result.now ≡ key_name role }
{
    match role {
        Role::Publish => "publish_key",
        Role::Request => "request_key",
    }
}

fn obstacle_name(obstacle: NotAdmitted) -> &'static str
    ensures { result.now ≡ obstacle_name obstacle }
{
    match obstacle {
        NotAdmitted::NoName => "no_name",
        NotAdmitted::UnknownName => "unknown_name",
        NotAdmitted::Address(role) => list_name(role),
        NotAdmitted::Key(role) => key_name(role),
    }
}

/// Puts what stood against a caller, if that is known.
fn put_obstacle(out: &mut Vec<u8>, by: Option<NotAdmitted>) -> Result<(), AllocError>
    ensures { OnOk result (out.new.items ≡ out.old.items ++ cause_member by) }
{
    match by {
        Some(obstacle) => put_text(out, b"cause", obstacle_name(obstacle).as_bytes()),
        None => put(out, b""),
    }
}

#[tactic(auto, using(crate::proofs::Growing::joined), unfolding(crate::specs::Objects::refused_members))]
fn put_refused(
    out: &mut Vec<u8>,
    code: u32,
    peer: Peer,
    name: &[u8],
    by: Option<NotAdmitted>,
) -> Result<(), AllocError>
    ensures { OnOk result (out.new.items ≡ out.old.items ++ refused_members code peer name.now by) }
{
    put_number(out, b"code", u64::from(code))?;
    put_peer_member(out, peer)?;
    put_shown(out, b"name", name)?;
    put_obstacle(out, by)
}

/// Puts an address without a port.
fn put_address(out: &mut Vec<u8>, ip: [u8; 16]) -> Result<(), AllocError>
    ensures { OnOk result (out.new.items ≡ out.old.items ++ address_member ip) }
{
    let mut piece = Line::new();
    put_ip(&mut piece, ip);
    put_text(out, b"address", &piece.text)
}

#[tactic(auto, using(crate::proofs::Growing::joined), unfolding(crate::specs::Objects::refused_again_members))]
fn put_refused_again(
    out: &mut Vec<u8>,
    ip: [u8; 16],
    code: u32,
    name: &[u8],
    by: Option<NotAdmitted>,
    count: u64,
) -> Result<(), AllocError>
    ensures { OnOk result (out.new.items ≡ out.old.items ++ refused_again_members ip code name.now by count) }
{
    put_number(out, b"code", u64::from(code))?;
    put_address(out, ip)?;
    put_shown(out, b"name", name)?;
    put_obstacle(out, by)?;
    put_number(out, b"count", count)
}

#[tactic(auto, using(crate::proofs::Growing::joined), unfolding(crate::specs::Objects::limited_members))]
fn put_limited(
    out: &mut Vec<u8>,
    route: &[u8],
    full: u64,
    reserved: u64,
    per_address: u64,
) -> Result<(), AllocError>
    ensures { OnOk result (out.new.items ≡ out.old.items ++ limited_members route.now full reserved per_address) }
{
    put_shown(out, b"route", route)?;
    put_number(out, b"no_free_session", full)?;
    put_number(out, b"reserved", reserved)?;
    put_number(out, b"sessions_per_address", per_address)
}

#[tactic(auto, using(crate::proofs::Growing::joined), unfolding(crate::specs::Objects::unseen_members))]
fn put_unseen(out: &mut Vec<u8>, route: &[u8], opened: u64) -> Result<(), AllocError>
    ensures { OnOk result (out.new.items ≡ out.old.items ++ unseen_members route.now opened) }
{
    put_shown(out, b"route", route)?;
    put_number(out, b"sessions", opened)
}

#[tactic(auto, using(crate::proofs::Growing::joined), unfolding(crate::specs::Objects::absent_members))]
fn put_absent(out: &mut Vec<u8>, route: &[u8], minutes: u64) -> Result<(), AllocError>
    ensures { OnOk result (out.new.items ≡ out.old.items ++ absent_members route.now minutes) }
{
    put_shown(out, b"route", route)?;
    put_number(out, b"minutes", minutes)
}

#[tactic(auto, using(crate::proofs::Growing::joined), unfolding(crate::specs::Objects::started_members))]
fn put_started(
    out: &mut Vec<u8>,
    ip: [u8; 16],
    port: u16,
    routes: u32,
    workers: u32,
    memory: u64,
) -> Result<(), AllocError>
    ensures { OnOk result (out.new.items ≡ out.old.items ++ started_members ip port routes workers memory) }
{
    put_bind(out, ip, port)?;
    put_number(out, b"routes", u64::from(routes))?;
    put_number(out, b"workers", u64::from(workers))?;
    put_number(out, b"memory_bytes", memory)
}

fn stop_name(cause: StopCause) -> &'static str
    ensures { result.now ≡ stop_name cause }
{
    match cause {
        StopCause::Signal => "signal",
        StopCause::Duration => "duration",
        StopCause::Rounds => "rounds",
    }
}

/// Puts the facts of an event.
fn put_members(out: &mut Vec<u8>, event: LogEvent<'_>) -> Result<(), AllocError>
    ensures { OnOk result (out.new.items ≡ out.old.items ++ event_members event.entry) }
{
    match event {
        LogEvent::Started {
            ip,
            port,
            routes,
            workers,
            memory,
        } => put_started(out, ip, port, routes, workers, memory),
        LogEvent::Opened {
            caller,
            standby,
            latency_ms,
            key_length,
        } => put_opened(out, caller, standby, latency_ms, key_length),
        LogEvent::Ended {
            caller,
            reason,
            lasted_ms,
            traffic,
            clock,
        } => put_ended(out, caller, reason, lasted_ms, &traffic, clock),
        LogEvent::TookOver { caller } => put_caller(out, caller),
        LogEvent::Troubled { caller, trouble } => put_troubled(out, caller, trouble),
        LogEvent::Refused {
            code,
            peer,
            name,
            by,
        } => put_refused(out, code, peer, name, by),
        LogEvent::RefusedAgain {
            ip,
            code,
            name,
            by,
            count,
        } => put_refused_again(out, ip, code, name, by, count),
        LogEvent::Limited {
            route,
            full,
            reserved,
            per_address,
        } => put_limited(out, route, full, reserved, per_address),
        LogEvent::Unseen { route, opened } => put_unseen(out, route, opened),
        LogEvent::Absent { route, minutes } => put_absent(out, route, minutes),
        LogEvent::Config { event } => put_config(out, event),
        LogEvent::Warned { warning } => put_shown(out, b"warning", warning),
        LogEvent::SocketFaults { count }
        | LogEvent::KernelDrops { count }
        | LogEvent::LeftOut { count } => put_number(out, b"count", count),
        LogEvent::StopRequested { by } => put_text(out, b"cause", stop_name(by).as_bytes()),
        LogEvent::Unblocked | LogEvent::Stopped => put(out, b""),
    }
}

/// Puts the text of a time, if there is one.
fn put_time(out: &mut Vec<u8>, time: Option<[u8; 24]>) -> Result<(), AllocError>
    ensures { OnOk result (out.new.items ≡ out.old.items ++ time_member time) }
{
    match time {
        Some(text) => put_shown(out, b"time", &text),
        None => put(out, b""),
    }
}

/// Puts the text of an event's line.
fn put_line(out: &mut Vec<u8>, event: LogEvent<'_>) -> Result<(), AllocError>
    ensures { OnOk result (out.new.items ≡ out.old.items ++ line_member event.entry) }
{
    let mut line = Line::new();
    put_event(&mut line, event);
    put_text(out, b"text", &line.text)
}

/// Puts the beginning of an object: what happened.
#[tactic(auto, using(crate::proofs::Growing::joined), unfolding(crate::specs::Objects::kind_member))]
fn put_kind(out: &mut Vec<u8>, kind: &str) -> Result<(), AllocError>
    ensures { OnOk result (out.new.items ≡ out.old.items ++ kind_member kind.now) }
{
    put(out, b"{\"event\":\"")?;
    put(out, kind.as_bytes())?;
    put(out, b"\"")
}

/// Puts the JSON object of an event (RFC 8259), with a line feed, at the end of a text: what happened (`event`), when (`time`,
/// where a time is given), the text of its line without the time (`text`), and each fact of it as a member of its own. No
/// other byte of it is a control character, and all are ASCII. Bytes that a caller chose, and names, are as in the line: `\x`
/// and two hexadecimal digits for what isn't printable. Times end in `_ms` or `_us`, by their unit. An error means that memory
/// was refused.
#[tactic(auto, using(crate::proofs::Growing::joined), unfolding(crate::specs::Objects::object_text))]
pub fn put_object(
    out: &mut Vec<u8>,
    time: Option<[u8; 24]>,
    event: LogEvent<'_>,
) -> Result<(), AllocError>
    ensures { OnOk result (out.new.items ≡ out.old.items ++ object_text time event.entry) }
{
    put_kind(out, kind_of(event))?;
    put_time(out, time)?;
    put_line(out, event)?;
    put_members(out, event)?;
    put(out, b"}\n")
}
