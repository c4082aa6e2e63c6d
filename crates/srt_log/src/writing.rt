//! The line of each event.

ghost use Rattle.std.specs.Prelude.{◌≡◌, ◌++◌, [], OnOk};
ghost use Rattle.std.specs.Io.KnownBytes.{Appends};
ghost use Rattle.srt_log.specs.Texts.{put};
ghost use Rattle.srt_log.specs.Events.{role_text, caller_text, latency_text, encryption_text, opened_text, session_opened_text, took_over_text};
ghost use Rattle.srt_log.specs.Events.{trouble_text, troubled_text, reason_text, counts_text, clock_text, ended_text, code_text, started_text};
ghost use Rattle.srt_log.specs.Events.{list_text, key_text, refused_by_text, refused_text, limits_text, limited_text, unseen_text, unblocked_text};
ghost use Rattle.srt_log.specs.Events.{count_text, cause_text, event_text, time_text, line_text, lasting_text, absent_text};
ghost use Rattle.srt_log.specs.Events.{name_text, asked_text, refused_again_text};

use crate::config_lines::put_config;
use crate::counts::{bytes_in, lost_in, packets_in, resent_in};
use crate::events::{Caller, ClockDrift, EndReason, LogEvent, StopCause, Trouble};
use crate::line::Line;
use crate::peers::{put_ip, put_peer, put_socket};
use arrayvec::ArrayVec;
use srt_hs::{RefusalCode, refusal_name};
use srt_route::Traffic;
use srt_types::product_limits::MAX_LOG_LINE;
use srt_types::{KeyLength, NotAdmitted, Peer, Role};
use std::io::{self, Write};

fn put_role(line: &mut Line, role: Role)
    ensures { line.new.text.items ≡ put line.old.text.items (role_text role) }
{
    match role {
        Role::Publish => line.put(b"publisher "),
        Role::Request => line.put(b"subscriber "),
    }
}

/// Puts the route, the role and the peer of a session.
#[tactic(auto, using(crate::proofs::Puts::put_put))]
fn put_caller(line: &mut Line, caller: Caller<'_>)
    ensures { line.new.text.items ≡ put line.old.text.items (caller_text caller.entry) }
{
    line.put_escaped(caller.route);
    line.put(b": ");
    put_role(line, caller.role);
    put_peer(line, caller.peer);
}

#[tactic(auto, using(crate::proofs::Puts::put_put))]
fn put_latency(line: &mut Line, latency_ms: Option<u32>)
    ensures { line.new.text.items ≡ put line.old.text.items (latency_text latency_ms) }
{
    match latency_ms {
        Some(ms) => {
            line.put(b", latency ");
            line.put_number(u64::from(ms));
            line.put(b" ms");
        }
        None => line.put(b""),
    }
}

/// Puts which keys an encrypted session has.
fn put_encryption(line: &mut Line, key_length: Option<KeyLength>)
    ensures { line.new.text.items ≡ put line.old.text.items (encryption_text key_length) }
{
    match key_length {
        Some(KeyLength::Aes128) => line.put(b", encrypted with AES-128"),
        Some(KeyLength::Aes192) => line.put(b", encrypted with AES-192"),
        Some(KeyLength::Aes256) => line.put(b", encrypted with AES-256"),
        None => line.put(b""),
    }
}

fn put_opened_as(line: &mut Line, standby: bool)
    ensures { line.new.text.items ≡ put line.old.text.items (opened_text standby) }
{
    if standby {
        line.put(b" opened as standby, socket ");
    } else {
        line.put(b" opened, socket ");
    }
}

fn put_reason(line: &mut Line, reason: EndReason)
    ensures { line.new.text.items ≡ put line.old.text.items (reason_text reason) }
{
    match reason {
        EndReason::Shutdown => line.put(b", its peer sent a SHUTDOWN"),
        EndReason::DrainedTooLong => {
            line.put(b", its peer sent a SHUTDOWN, and not all of it could be delivered")
        }
        EndReason::Silence => line.put(b", nothing arrived from its peer"),
        EndReason::WindowLost => line.put(b", its window was lost"),
        EndReason::StreamEnd => line.put(b", the stream is at its end"),
        EndReason::RouteClosed => line.put(b", its route was closed"),
        EndReason::GatewayStops => line.put(b", the gateway stops"),
        EndReason::Unknown => line.put(b", its slot was taken again"),
    }
}

/// Puts what a session counted.
#[tactic(auto, using(crate::proofs::Puts::put_put))]
fn put_counts(line: &mut Line, traffic: &Traffic)
    ensures { line.new.text.items ≡ put line.old.text.items (counts_text traffic.now) }
{
    line.put_number(packets_in(traffic));
    line.put(b" packets, ");
    line.put_number(bytes_in(traffic));
    line.put(b" bytes, ");
    line.put_number(lost_in(traffic));
    line.put(b" lost, ");
    line.put_number(resent_in(traffic));
    line.put(b" resent");
}

/// Puts how a publisher's clock was followed, if it was.
#[tactic(auto, using(crate::proofs::Puts::put_put))]
fn put_clock(line: &mut Line, clock: Option<ClockDrift>)
    ensures { line.new.text.items ≡ put line.old.text.items (clock_text clock) }
{
    match clock {
        Some(drift) => {
            line.put(b", clock drift ");
            line.put_signed(drift.ppm);
            line.put(b" ppm, correction ");
            line.put_signed(i128::from(drift.correction));
            line.put(b" us");
        }
        None => line.put(b""),
    }
}

#[tactic(auto, using(crate::proofs::Puts::put_put))]
fn put_ended(
    line: &mut Line,
    caller: Caller<'_>,
    reason: EndReason,
    lasted_ms: u64,
    traffic: &Traffic,
    clock: Option<ClockDrift>,
)
    ensures { line.new.text.items ≡ put line.old.text.items (ended_text caller.entry reason lasted_ms traffic.now clock) }
{
    put_caller(line, caller);
    line.put(b" ended, socket ");
    line.put_id(caller.id);
    put_reason(line, reason);
    line.put(b", after ");
    line.put_number(lasted_ms);
    line.put(b" ms, ");
    put_counts(line, traffic);
    put_clock(line, clock);
}

#[tactic(auto, using(crate::proofs::Puts::put_put))]
fn put_opened(
    line: &mut Line,
    caller: Caller<'_>,
    standby: bool,
    latency_ms: Option<u32>,
    key_length: Option<KeyLength>,
)
    ensures { line.new.text.items ≡ put line.old.text.items (session_opened_text caller.entry standby latency_ms key_length) }
{
    put_caller(line, caller);
    put_opened_as(line, standby);
    line.put_id(caller.id);
    put_latency(line, latency_ms);
    put_encryption(line, key_length);
}

#[tactic(auto, using(crate::proofs::Puts::put_put))]
fn put_took_over(line: &mut Line, caller: Caller<'_>)
    ensures { line.new.text.items ≡ put line.old.text.items (took_over_text caller.entry) }
{
    put_caller(line, caller);
    line.put(b" took over, socket ");
    line.put_id(caller.id);
}

fn put_trouble(line: &mut Line, trouble: Trouble)
    ensures { line.new.text.items ≡ put line.old.text.items (trouble_text trouble) }
{
    match trouble {
        Trouble::Misdirected => {
            line.put(b" sends data, but has not asked to publish (m=publish), socket ");
        }
        Trouble::FullWindow => {
            line.put(b" fills its window and waits, buffer is too small, socket ");
        }
        Trouble::LatePackets => {
            line.put(b" sends packets that arrive too late, socket ");
        }
    }
}

#[tactic(auto, using(crate::proofs::Puts::put_put))]
fn put_troubled(line: &mut Line, caller: Caller<'_>, trouble: Trouble)
    ensures { line.new.text.items ≡ put line.old.text.items (troubled_text caller.entry trouble) }
{
    put_caller(line, caller);
    put_trouble(line, trouble);
    line.put_id(caller.id);
}

/// Puts words and a number.
#[tactic(auto, using(crate::proofs::Puts::put_put))]
fn put_count(line: &mut Line, words: &[u8], count: u64)
    ensures { line.new.text.items ≡ put line.old.text.items (count_text words.now count) }
{
    line.put(words);
    line.put_number(count);
}

/// Puts the number of a reason for a refusal, and its name.
#[tactic(auto, using(crate::proofs::Puts::put_put))]
fn put_code(line: &mut Line, code: u32)
    ensures { line.new.text.items ≡ put line.old.text.items (code_text code) }
{
    line.put_small(code);
    line.put(b" ");
    line.put(refusal_name(code).as_bytes());
}

#[tactic(auto, using(crate::proofs::Puts::put_put))]
fn put_started(line: &mut Line, ip: [u8; 16], port: u16, routes: u32, workers: u32, memory: u64)
    ensures { line.new.text.items ≡ put line.old.text.items (started_text ip port routes workers memory) }
{
    line.put(b"serving at ");
    put_socket(line, ip, port);
    line.put(b", routes ");
    line.put_number(u64::from(routes));
    line.put(b", workers ");
    line.put_number(u64::from(workers));
    line.put(b", memory ");
    line.put_number(memory / 1024);
    line.put(b" KiB");
}

/// Puts the name of a role's list.
fn put_list(line: &mut Line, role: Role)
    ensures { line.new.text.items ≡ put line.old.text.items (list_text role) }
{
    match role {
        Role::Publish => line.put(b", not in publish_from"),
        Role::Request => line.put(b", not in request_from"),
    }
}

/// Puts the name of a role's key.
fn put_key(line: &mut Line, role: Role)
    ensures { line.new.text.items ≡ put line.old.text.items (key_text role) }
{
    match role {
        Role::Publish => line.put(b", publish_key missing or wrong"),
        Role::Request => line.put(b", request_key missing or wrong"),
    }
}

/// Puts what stood against a caller, if that is known.
#[tactic(auto, using(crate::proofs::Puts::put_put))]
fn put_refused_by(line: &mut Line, by: Option<NotAdmitted>)
    ensures { line.new.text.items ≡ put line.old.text.items (refused_by_text by) }
{
    match by {
        Some(NotAdmitted::NoName) => line.put(b", no valid name"),
        Some(NotAdmitted::UnknownName) => line.put(b", unknown name"),
        Some(NotAdmitted::Address(role)) => put_list(line, role),
        Some(NotAdmitted::Key(role)) => put_key(line, role),
        None => line.put(b""),
    }
}

/// Puts the name that was requested, if there is one.
#[tactic(auto, using(crate::proofs::Puts::put_put))]
fn put_name(line: &mut Line, name: &[u8])
    ensures { line.new.text.items ≡ put line.old.text.items (name_text name.now) }
{
    if name.len() == 0 {
        line.put(b"");
    } else {
        line.put(b", asked for \"");
        line.put_escaped(name);
        line.put(b"\"");
    }
}

/// Puts the reason of a refusal, and what was requested.
#[tactic(auto, using(crate::proofs::Puts::put_put))]
fn put_asked(line: &mut Line, code: u32, name: &[u8], by: Option<NotAdmitted>)
    ensures { line.new.text.items ≡ put line.old.text.items (asked_text code name.now by) }
{
    put_code(line, code);
    put_name(line, name);
    put_refused_by(line, by);
}

/// Puts that a conclusion was refused.
#[tactic(auto, using(crate::proofs::Puts::put_put))]
fn put_refused(line: &mut Line, code: u32, peer: Peer, name: &[u8], by: Option<NotAdmitted>)
    ensures { line.new.text.items ≡ put line.old.text.items (refused_text code peer name.now by) }
{
    put_peer(line, peer);
    line.put(b" refused, ");
    put_asked(line, code, name, by);
}

/// Puts how often a caller was refused again.
#[tactic(auto, using(crate::proofs::Puts::put_put))]
fn put_refused_again(
    line: &mut Line,
    ip: [u8; 16],
    code: u32,
    name: &[u8],
    by: Option<NotAdmitted>,
    count: u64,
)
    ensures { line.new.text.items ≡ put line.old.text.items (refused_again_text ip code name.now by count) }
{
    put_ip(line, ip);
    line.put(b" refused ");
    line.put_number(count);
    line.put(b" more times, ");
    put_asked(line, code, name, by);
}

/// Puts how many conclusions each limit of a route refused.
#[tactic(auto, using(crate::proofs::Puts::put_put))]
fn put_limits(line: &mut Line, full: u64, reserved: u64, per_address: u64)
    ensures { line.new.text.items ≡ put line.old.text.items (limits_text full reserved per_address) }
{
    line.put_number(full);
    line.put(b" no free session, ");
    line.put_number(reserved);
    line.put(b" reserved, ");
    line.put_number(per_address);
    line.put(b" sessions_per_address");
}

#[tactic(auto, using(crate::proofs::Puts::put_put))]
fn put_limited(line: &mut Line, route: &[u8], full: u64, reserved: u64, per_address: u64)
    ensures { line.new.text.items ≡ put line.old.text.items (limited_text route.now full reserved per_address) }
{
    line.put_escaped(route);
    line.put(b": refused by its limits, ");
    put_code(line, RefusalCode::Resource.number());
    line.put(b": ");
    put_limits(line, full, reserved, per_address);
}

#[tactic(auto, using(crate::proofs::Puts::put_put))]
fn put_unseen(line: &mut Line, route: &[u8], opened: u64)
    ensures { line.new.text.items ≡ put line.old.text.items (unseen_text route.now opened) }
{
    line.put_escaped(route);
    line.put(b": ");
    line.put_number(opened);
    line.put(b" sessions opened and ended unseen");
}

/// Puts how long a route has had no encoder; nothing as that begins.
#[tactic(auto, using(crate::proofs::Puts::put_put))]
fn put_lasting(line: &mut Line, minutes: u64)
    ensures { line.new.text.items ≡ put line.old.text.items (lasting_text minutes) }
{
    if minutes == 0 {
        line.put(b"");
    } else {
        line.put(b" for ");
        line.put_number(minutes);
        line.put(b" minutes");
    }
}

#[tactic(auto, using(crate::proofs::Puts::put_put))]
fn put_absent(line: &mut Line, route: &[u8], minutes: u64)
    ensures { line.new.text.items ≡ put line.old.text.items (absent_text route.now minutes) }
{
    line.put_escaped(route);
    line.put(b": expected on air, no encoder");
    put_lasting(line, minutes);
}

/// The text of a start without blocked signals.
const UNBLOCKED: &[u8] =
    b"SIGINT or SIGTERM ends the gateway at once, without a report: bin/srtgw run blocks them";

fn put_cause(line: &mut Line, cause: StopCause)
    ensures { line.new.text.items ≡ put line.old.text.items (cause_text cause) }
{
    match cause {
        StopCause::Signal => line.put(b"stopping, by a signal"),
        StopCause::Duration => line.put(b"stopping, the time of --for is over"),
        StopCause::Rounds => line.put(b"stopping, all rounds were made"),
    }
}

/// Puts the text of an event.
pub(crate) fn put_event(line: &mut Line, event: LogEvent<'_>)
    ensures { line.new.text.items ≡ put line.old.text.items (event_text event.entry) }
{
    match event {
        LogEvent::Started {
            ip,
            port,
            routes,
            workers,
            memory,
        } => put_started(line, ip, port, routes, workers, memory),
        LogEvent::Opened {
            caller,
            standby,
            latency_ms,
            key_length,
        } => put_opened(line, caller, standby, latency_ms, key_length),
        LogEvent::Ended {
            caller,
            reason,
            lasted_ms,
            traffic,
            clock,
        } => put_ended(line, caller, reason, lasted_ms, &traffic, clock),
        LogEvent::TookOver { caller } => put_took_over(line, caller),
        LogEvent::Troubled { caller, trouble } => put_troubled(line, caller, trouble),
        LogEvent::Refused {
            code,
            peer,
            name,
            by,
        } => put_refused(line, code, peer, name, by),
        LogEvent::RefusedAgain {
            ip,
            code,
            name,
            by,
            count,
        } => put_refused_again(line, ip, code, name, by, count),
        LogEvent::Limited {
            route,
            full,
            reserved,
            per_address,
        } => put_limited(line, route, full, reserved, per_address),
        LogEvent::Unseen { route, opened } => put_unseen(line, route, opened),
        LogEvent::Absent { route, minutes } => put_absent(line, route, minutes),
        LogEvent::Config { event } => put_config(line, event),
        LogEvent::Unblocked => line.put(UNBLOCKED),
        LogEvent::Warned { warning } => line.put_escaped(warning),
        LogEvent::SocketFaults { count } => put_count(line, b"socket faults ", count),
        LogEvent::KernelDrops { count } => put_count(
            line,
            b"datagrams dropped by the kernel ",
            count,
        ),
        LogEvent::LeftOut { count } => put_count(line, b"lines left out ", count),
        LogEvent::StopRequested { by } => put_cause(line, by),
        LogEvent::Stopped => line.put(b"stopped"),
    }
}

/// Puts the text of a time and a space, if there is one.
#[tactic(auto, using(crate::proofs::Puts::put_put))]
fn put_time(line: &mut Line, time: Option<[u8; 24]>)
    ensures { line.new.text.items ≡ put line.old.text.items (time_text time) }
{
    match time {
        Some(text) => {
            line.put_escaped(&text);
            line.put(b" ");
        }
        None => line.put(b""),
    }
}

/// The text of a line.
#[tactic(auto, using(crate::proofs::Puts::put_put))]
fn line_of(time: Option<[u8; 24]>, event: LogEvent<'_>) -> Line
    ensures { result.text.items ≡ put [] (time_text time ++ event_text event.entry) }
{
    let mut line = Line::new();
    put_time(&mut line, time);
    put_event(&mut line, event);
    line
}

/// Returns the line of an event without its time and its line feed, as [`write_line`] writes it. Doesn't allocate.
pub fn event_line(event: LogEvent<'_>) -> ArrayVec<u8, MAX_LOG_LINE>
    ensures { result.items ≡ put [] (event_text event.entry) }
{
    line_of(None, event).bare()
}

/// Writes the line of an event, with its line feed, by one call of `write_all`: at its front the text of its time, if
/// there is one, and a space. A line of more than 1,023 bytes is cut off there. Bytes that callers chose, and those of
/// names and warnings, are shown as themselves if they are printable characters of ASCII other than `"` and `\`, else as
/// `\x` and two hexadecimal digits; in what is said of a configuration's fault these two stand as they are. An error is the
/// writer's.
pub fn write_line<W: Write>(
    out: &mut W,
    time: Option<[u8; 24]>,
    event: LogEvent<'_>,
) -> io::Result<()>
    ensures { OnOk result (Appends (W.contents out.old) (W.contents out.new) (line_text time event.entry)) }
{
    let text = line_of(time, event).ended();
    out.write_all(&text)
}
