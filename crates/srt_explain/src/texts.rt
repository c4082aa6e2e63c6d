//! The words of warnings, and addresses.

ghost use Rattle.std.specs.Prelude.{◌≡◌, Some};
ghost use Rattle.std.specs.Fmt.{DisplaysOnOk};
ghost use Rattle.srt_explain.specs.Texts.{octets_text, address_text, host_text, exposed_text, loopback_text, exposed_status_text};
ghost use Rattle.srt_explain.specs.Texts.{open_key_text, short_passphrase_text, shared_passphrase_text, clear_players_text, small_outbox_text};
ghost use Rattle.srt_explain.specs.Texts.{brought_text, enough_text, small_window_text, one_session_text};
ghost use Rattle.srt_explain.specs.Texts.{unused_takeover_text, unused_limit_text, one_unreserved_text, no_callers_text, no_reserved_text};
ghost use Rattle.srt_explain.specs.Texts.{no_takeover_text, no_resend_limit_text, example_secret_text, warning_text, route_text, warning_line};
ghost use Rattle.srt_explain.specs.Texts.{more_routes_text, public_file_text};

use crate::grouping::{RouteRisk, risk_key};
use crate::warnings::{Warning, WarningText};
use srt_config::{BindAddress, Key};
use srt_types::{Role, is_mapped};
use std::fmt;
use std::net::Ipv6Addr;

/// Four octets with dots between them.
#[derive(Clone, Copy)]
struct Octets([u8; 4]);

impl fmt::Display for Octets {
    ghost output = { λ x. Some (octets_text x.0) };

    #[tactic(auto, unfolding(crate::specs::Texts::octets_text))]
    fn fmt<W: fmt::Write>(&self, f: &mut fmt::Formatter<W>) -> fmt::Result {
        let [a, b, c, d] = self.0;
        write!(f, "{a}.{b}.{c}.{d}")
    }
}

/// The 16 bytes of an address: those of an IPv4 address as four octets, others as groups.
#[derive(Clone, Copy)]
pub(crate) struct Address(pub(crate) [u8; 16]);

impl fmt::Display for Address {
    ghost output = { λ x. Some (address_text x.0) };

    #[tactic(auto, unfolding(crate::specs::Texts::address_text))]
    fn fmt<W: fmt::Write>(&self, f: &mut fmt::Formatter<W>) -> fmt::Result {
        let ip = self.0;
        if is_mapped(&ip) {
            let octets = Octets([ip[12], ip[13], ip[14], ip[15]]);
            return write!(f, "{octets}");
        }
        let groups = Ipv6Addr::from_octets(ip).hex_groups();
        write!(f, "{groups}")
    }
}

/// The same before a port: groups in brackets.
#[derive(Clone, Copy)]
struct Host([u8; 16]);

impl fmt::Display for Host {
    ghost output = { λ x. Some (host_text x.0) };

    #[tactic(auto, unfolding(crate::specs::Texts::host_text))]
    fn fmt<W: fmt::Write>(&self, f: &mut fmt::Formatter<W>) -> fmt::Result {
        let address = Address(self.0);
        if is_mapped(&self.0) {
            return write!(f, "{address}");
        }
        write!(f, "[{address}]")
    }
}

/// Writes at which address others can reach the status page.
#[tactic(auto, unfolding(crate::specs::Texts::exposed_text))]
fn write_exposed<W: fmt::Write>(f: &mut fmt::Formatter<W>, address: BindAddress) -> fmt::Result
    ensures { DisplaysOnOk W.write_str_gives f.old result (Some (exposed_text address)) f.new }
{
    let ip = Host(address.ip);
    let port = address.port;
    write!(
        f,
        "status = \"{ip}:{port}\": others can reach the status page, which tells who is connected and can't ask for a password; "
    )
}

/// Writes which address is better.
#[tactic(auto, unfolding(crate::specs::Texts::loopback_text))]
fn write_loopback<W: fmt::Write>(f: &mut fmt::Formatter<W>, port: u16) -> fmt::Result
    ensures { DisplaysOnOk W.write_str_gives f.old result (Some (loopback_text port)) f.new }
{
    write!(
        f,
        "write \"127.0.0.1:{port}\", with a proxy before it if others are to see it"
    )
}

fn write_exposed_status<W: fmt::Write>(
    f: &mut fmt::Formatter<W>,
    address: BindAddress,
) -> fmt::Result
    ensures { DisplaysOnOk W.write_str_gives f.old result (Some (exposed_status_text address)) f.new }
{
    write_exposed(f, address)?;
    write_loopback(f, address.port)
}

/// Writes the risk of a key without a list.
#[tactic(auto, unfolding(crate::specs::Texts::open_key_text))]
fn write_open_key<W: fmt::Write>(f: &mut fmt::Formatter<W>, role: Role) -> fmt::Result
    ensures { DisplaysOnOk W.write_str_gives f.old result (Some (open_key_text role)) f.new }
{
    let (key, list) = match role {
        Role::Publish => (Key::PublishKey.name(), Key::PublishFrom.name()),
        Role::Request => (Key::RequestKey.name(), Key::RequestFrom.name()),
    };
    write!(
        f,
        "{key}: a Stream ID isn't encrypted, so who reads it on its way can use it from anywhere; "
    )?;
    write!(f, "write {list} too, if the callers' addresses are known")
}

/// Writes the risk of a short passphrase.
#[tactic(auto, unfolding(crate::specs::Texts::short_passphrase_text))]
fn write_short_passphrase<W: fmt::Write>(f: &mut fmt::Formatter<W>, role: Role) -> fmt::Result
    ensures { DisplaysOnOk W.write_str_gives f.old result (Some (short_passphrase_text role)) f.new }
{
    let key = match role {
        Role::Publish => Key::PublishPassphrase.name(),
        Role::Request => Key::RequestPassphrase.name(),
    };
    write!(
        f,
        "{key}: it has fewer than 16 bytes, so who records the opening of a session can find it by trial; write 16 or more"
    )
}

#[tactic(auto, unfolding(crate::specs::Texts::shared_passphrase_text))]
fn write_shared_passphrase<W: fmt::Write>(f: &mut fmt::Formatter<W>) -> fmt::Result
    ensures { DisplaysOnOk W.write_str_gives f.old result (Some shared_passphrase_text) f.new }
{
    f.write_str(
        "request_passphrase: it is publish_passphrase too, so who may receive may also publish; write another one",
    )
}

#[tactic(auto, unfolding(crate::specs::Texts::clear_players_text))]
fn write_clear_players<W: fmt::Write>(f: &mut fmt::Formatter<W>) -> fmt::Result
    ensures { DisplaysOnOk W.write_str_gives f.old result (Some clear_players_text) f.new }
{
    f.write_str("publish_passphrase: publishers encrypt, and players get the stream in clear; ")?;
    f.write_str("write request_passphrase too, if it is to stay encrypted")
}

#[tactic(auto, unfolding(crate::specs::Texts::small_outbox_text))]
fn write_small_outbox<W: fmt::Write>(
    f: &mut fmt::Formatter<W>,
    outbox: u32,
    replies: u64,
) -> fmt::Result
    ensures { DisplaysOnOk W.write_str_gives f.old result (Some (small_outbox_text outbox replies)) f.new }
{
    write!(
        f,
        "outbox = {outbox}: one event can give {replies} replies (4 + 66 x sessions), "
    )?;
    write!(
        f,
        "and a full outbox holds the route up; write {replies} or more"
    )
}

/// Writes how many packets a stream brings.
#[tactic(auto, unfolding(crate::specs::Texts::brought_text))]
fn write_brought<W: fmt::Write>(
    f: &mut fmt::Formatter<W>,
    buffer: u32,
    packets: u64,
    millis: u64,
) -> fmt::Result
    ensures { DisplaysOnOk W.write_str_gives f.old result (Some (brought_text buffer packets millis)) f.new }
{
    write!(
        f,
        "buffer = {buffer}: a stream of 1 Mbit/s brings {packets} packets in {millis} ms, "
    )
}

/// Writes how many places are better.
#[tactic(auto, unfolding(crate::specs::Texts::enough_text))]
fn write_enough<W: fmt::Write>(f: &mut fmt::Formatter<W>, packets: u64) -> fmt::Result
    ensures { DisplaysOnOk W.write_str_gives f.old result (Some (enough_text packets)) f.new }
{
    write!(
        f,
        "and what has no place is lost; write {packets} or more, and as many times more as the stream has Mbit/s"
    )
}

fn write_small_window<W: fmt::Write>(
    f: &mut fmt::Formatter<W>,
    buffer: u32,
    packets: u64,
    millis: u64,
) -> fmt::Result
    ensures { DisplaysOnOk W.write_str_gives f.old result (Some (small_window_text buffer packets millis)) f.new }
{
    write_brought(f, buffer, packets, millis)?;
    write_enough(f, packets)
}

#[tactic(auto, unfolding(crate::specs::Texts::one_session_text))]
fn write_one_session<W: fmt::Write>(f: &mut fmt::Formatter<W>) -> fmt::Result
    ensures { DisplaysOnOk W.write_str_gives f.old result (Some one_session_text) f.new }
{
    f.write_str("sessions = 1: an encoder takes it, and nobody can receive; ")?;
    f.write_str("write 2 or more, 3 with a backup encoder")
}

#[tactic(auto, unfolding(crate::specs::Texts::unused_takeover_text))]
fn write_unused_takeover<W: fmt::Write>(f: &mut fmt::Formatter<W>) -> fmt::Result
    ensures { DisplaysOnOk W.write_str_gives f.old result (Some unused_takeover_text) f.new }
{
    f.write_str(
        "takeover_ms: it has no effect in buffer mode, where the publisher that stands by ",
    )?;
    f.write_str("waits for the end of the active one; leave it out")
}

#[tactic(auto, unfolding(crate::specs::Texts::unused_limit_text))]
fn write_unused_limit<W: fmt::Write>(
    f: &mut fmt::Formatter<W>,
    limit: u32,
    sessions: u32,
) -> fmt::Result
    ensures { DisplaysOnOk W.write_str_gives f.old result (Some (unused_limit_text limit sessions)) f.new }
{
    write!(
        f,
        "sessions_per_address = {limit}: it has no effect with sessions = {sessions}, "
    )?;
    f.write_str("since one address may take all of them; write less, or leave it out")
}

#[tactic(auto, unfolding(crate::specs::Texts::one_unreserved_text))]
fn write_one_unreserved<W: fmt::Write>(
    f: &mut fmt::Formatter<W>,
    reserved: u32,
    sessions: u32,
) -> fmt::Result
    ensures { DisplaysOnOk W.write_str_gives f.old result (Some (one_unreserved_text reserved sessions)) f.new }
{
    write!(
        f,
        "reserved = {reserved}: of sessions = {sessions} one alone is left for subscribers; "
    )?;
    f.write_str("raise sessions, if more than one is to receive")
}

#[tactic(auto, unfolding(crate::specs::Texts::no_callers_text))]
fn write_no_callers<W: fmt::Write>(f: &mut fmt::Formatter<W>) -> fmt::Result
    ensures { DisplaysOnOk W.write_str_gives f.old result (Some no_callers_text) f.new }
{
    f.write_str("callers is missing, so the route follows the draft to the byte, and nearly all ")?;
    f.write_str("encoders and players use libsrt; write callers = \"libsrt\"")
}

#[tactic(auto, unfolding(crate::specs::Texts::no_reserved_text))]
fn write_no_reserved<W: fmt::Write>(f: &mut fmt::Formatter<W>, slots: u32) -> fmt::Result
    ensures { DisplaysOnOk W.write_str_gives f.old result (Some (no_reserved_text slots)) f.new }
{
    f.write_str(
        "reserved is missing, so players can take all sessions, and the encoder gets none; ",
    )?;
    write!(f, "write reserved = {slots}")
}

#[tactic(auto, unfolding(crate::specs::Texts::no_takeover_text))]
fn write_no_takeover<W: fmt::Write>(f: &mut fmt::Formatter<W>) -> fmt::Result
    ensures { DisplaysOnOk W.write_str_gives f.old result (Some no_takeover_text) f.new }
{
    f.write_str("takeover_ms is missing, so a backup encoder waits for the end of the other ")?;
    f.write_str("session, five silent seconds; write takeover_ms = 500")
}

#[tactic(auto, unfolding(crate::specs::Texts::no_resend_limit_text))]
fn write_no_resend_limit<W: fmt::Write>(f: &mut fmt::Formatter<W>) -> fmt::Result
    ensures { DisplaysOnOk W.write_str_gives f.old result (Some no_resend_limit_text) f.new }
{
    f.write_str("resend_percent is missing, so one player that requests packets again and again ")?;
    f.write_str("can fill the line; write resend_percent = 50")
}

#[tactic(auto, unfolding(crate::specs::Texts::example_secret_text))]
fn write_example_secret<W: fmt::Write>(f: &mut fmt::Formatter<W>) -> fmt::Result
    ensures { DisplaysOnOk W.write_str_gives f.old result (Some example_secret_text) f.new }
{
    f.write_str("secret: it is that of examples/gateway.toml, which everybody can ")?;
    f.write_str("read; put the output of openssl rand -hex 32 in its place")
}

#[tactic(auto, unfolding(crate::specs::Texts::public_file_text))]
fn write_public_file<W: fmt::Write>(f: &mut fmt::Formatter<W>) -> fmt::Result
    ensures { DisplaysOnOk W.write_str_gives f.old result (Some public_file_text) f.new }
{
    f.write_str(
        "the configuration's file has keys or passphrases, and others than its owner and ",
    )?;
    f.write_str("its group may use it; chmod 640 keeps them out")
}

#[tactic(auto, unfolding(crate::specs::Texts::more_routes_text))]
fn write_more_routes<W: fmt::Write>(
    f: &mut fmt::Formatter<W>,
    risk: RouteRisk,
    count: usize,
) -> fmt::Result
    ensures { DisplaysOnOk W.write_str_gives f.old result (Some (more_routes_text risk count)) f.new }
{
    let key = risk_key(risk);
    write!(f, "{key}: more routes have this warning: {count}")
}

/// Writes a warning without its route.
fn write_warning<W: fmt::Write>(f: &mut fmt::Formatter<W>, warning: Warning) -> fmt::Result
    ensures { DisplaysOnOk W.write_str_gives f.old result (Some (warning_text warning)) f.new }
{
    match warning {
        Warning::ExampleSecret => write_example_secret(f),
        Warning::ExposedStatus { address } => write_exposed_status(f, address),
        Warning::SmallOutbox {
            outbox,
            replies,
            ..
        } => write_small_outbox(f, outbox, replies),
        Warning::SmallWindow {
            buffer,
            packets,
            millis,
            ..
        } => write_small_window(f, buffer, packets, millis),
        Warning::OneSession { .. } => write_one_session(f),
        Warning::OpenKey { role, .. } => write_open_key(f, role),
        Warning::ShortPassphrase { role, .. } => write_short_passphrase(f, role),
        Warning::SharedPassphrase { .. } => write_shared_passphrase(f),
        Warning::ClearPlayers { .. } => write_clear_players(f),
        Warning::UnusedTakeover { .. } => write_unused_takeover(f),
        Warning::UnusedAddressLimit {
            limit,
            sessions,
            ..
        } => write_unused_limit(f, limit, sessions),
        Warning::OneUnreserved {
            reserved,
            sessions,
            ..
        } => write_one_unreserved(f, reserved, sessions),
        Warning::NoCallers { .. } => write_no_callers(f),
        Warning::NoReserved { slots, .. } => write_no_reserved(f, slots),
        Warning::NoTakeover { .. } => write_no_takeover(f),
        Warning::NoResendLimit { .. } => write_no_resend_limit(f),
        Warning::PublicFile => write_public_file(f),
        Warning::MoreRoutes { risk, count } => write_more_routes(f, risk, count),
    }
}

/// Writes the route that a warning is about, if it is about one.
#[tactic(auto, unfolding(crate::specs::Texts::route_text))]
fn write_route<W: fmt::Write>(
    f: &mut fmt::Formatter<W>,
    route: Option<usize>,
    name: &str,
) -> fmt::Result
    ensures { DisplaysOnOk W.write_str_gives f.old result (Some (route_text route name.now)) f.new }
{
    match route {
        Some(route) => write!(f, "warning: route {route} ({name}): "),
        None => f.write_str("warning: "),
    }
}

impl fmt::Display for WarningText<'_> {
    ghost output = { λ x. Some (warning_line x.warning x.name.now) };

    fn fmt<W: fmt::Write>(&self, f: &mut fmt::Formatter<W>) -> fmt::Result {
        write_route(f, self.warning.route(), self.name)?;
        write_warning(f, self.warning)
    }
}
