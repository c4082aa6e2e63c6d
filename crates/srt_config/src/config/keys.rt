//! The table of keys: how each key of a configuration is written, and which values it may have.

ghost use Rattle.std.specs.Prelude.{◌≡◌, ◌^◌, ◌<◌, option_map};
ghost use Rattle.srt_config.specs.KeyTable.{key_name, kind_of, limits_of, both_texts, choices_of, is_private};

use srt_types::product_limits::{
    MAX_KEY, MAX_LATENCY_MS, MAX_NAME, MAX_NETWORKS, MAX_QUEUE, MAX_RESEND_PERCENT, MAX_RESERVED,
    MAX_ROUND, MAX_ROUTES, MAX_SESSIONS, MAX_TAKEOVER_MS, MAX_WORKERS, MIN_LATENCY_MS, MIN_QUEUE,
    MIN_RESEND_PERCENT, MIN_TAKEOVER_MS, SECRET_DIGITS,
};
use srt_types::protocol_limits::{MAX_WINDOW, MIN_WINDOW};

/// The minimum length of a passphrase, in bytes.
const MIN_PASSPHRASE: usize = 10;

/// The maximum length of a passphrase, in bytes.
const MAX_PASSPHRASE: usize = 79;

/// The minimum length of keys, in bytes: of AES-128.
const MIN_KEY_BYTES: usize = 16;

/// The maximum length of keys, in bytes: of AES-256.
const MAX_KEY_BYTES: usize = 32;

/// The mode of a route for live streams.
pub(crate) const LIVE: &str = "live";

/// The mode of a route for files.
pub(crate) const BUFFER: &str = "buffer";

/// Sessions follow the draft's rules.
pub(crate) const DRAFT: &str = "draft";

/// Sessions follow libsrt's rules where these differ from the draft's.
pub(crate) const LIBSRT: &str = "libsrt";

/// The keys of the table.
pub const TOP_KEYS: [Key; 6] = [
    Key::Secret,
    Key::Bind,
    Key::Workers,
    Key::Status,
    Key::Defaults,
    Key::Route,
];

/// The keys of a route.
pub const ROUTE_KEYS: [Key; 22] = [
    Key::Name,
    Key::Mode,
    Key::LatencyMs,
    Key::Buffer,
    Key::Sessions,
    Key::Inbox,
    Key::Outbox,
    Key::OpenRound,
    Key::CloseRound,
    Key::Callers,
    Key::PublishFrom,
    Key::RequestFrom,
    Key::PublishKey,
    Key::RequestKey,
    Key::Reserved,
    Key::SessionsPerAddress,
    Key::TakeoverMs,
    Key::ResendPercent,
    Key::PublishPassphrase,
    Key::RequestPassphrase,
    Key::Pbkeylen,
    Key::Expect,
];

/// The keys of the table of defaults: those of a route but its name.
pub const DEFAULT_KEYS: [Key; 21] = [
    Key::Mode,
    Key::LatencyMs,
    Key::Buffer,
    Key::Sessions,
    Key::Inbox,
    Key::Outbox,
    Key::OpenRound,
    Key::CloseRound,
    Key::Callers,
    Key::PublishFrom,
    Key::RequestFrom,
    Key::PublishKey,
    Key::RequestKey,
    Key::Reserved,
    Key::SessionsPerAddress,
    Key::TakeoverMs,
    Key::ResendPercent,
    Key::PublishPassphrase,
    Key::RequestPassphrase,
    Key::Pbkeylen,
    Key::Expect,
];

/// A key of the table or of a route in it.
#[derive(Clone, Copy, Debug, PartialEq, Eq)]
pub enum Key {
    /// `secret`: 64 hexadecimal digits.
    Secret,
    /// `bind`: an IPv4 address and a UDP port.
    Bind,
    /// `workers`: the number of threads that serve routes, 1 to 16.
    Workers,
    /// `status`: the IPv4 address and TCP port of the status page; there is none if it is missing.
    Status,
    /// `defaults`: the table of the keys that a route has if its own table lacks them; there are none if it is missing.
    Defaults,
    /// `route`: the tables of the routes, 1 to 511.
    Route,
    /// `name`: a route's name, 1 to 64 bytes.
    Name,
    /// `mode`: `live` or `buffer`.
    Mode,
    /// `latency_ms`: the least delay of a live session in milliseconds, 20 to 8000.
    LatencyMs,
    /// `buffer`: the size of a session's window in packets, 32 to 8192.
    Buffer,
    /// `sessions`: the greatest number of sessions at a time, 1 to 17.
    Sessions,
    /// `inbox`: the greatest number of events that wait to be processed, 16 to 4096.
    Inbox,
    /// `outbox`: the greatest number of replies that wait to be sent, 16 to 4096.
    Outbox,
    /// `open_round`: the poller's round in which the route opens, 0 to 1,000,000,000; 0 if it is missing.
    OpenRound,
    /// `close_round`: the poller's round in which the route closes, after `open_round` and at most 1,000,000,000; it
    /// stays open if it is missing.
    CloseRound,
    /// `callers`: which rules the sessions of a route follow, `draft` or `libsrt`; the draft's if it is missing.
    Callers,
    /// `publish_from`: the networks that publishers may call from, 1 to 16; from anywhere if it is missing.
    PublishFrom,
    /// `request_from`: the networks that subscribers may call from, 1 to 16; from anywhere if it is missing.
    RequestFrom,
    /// `publish_key`: the key that a publisher's Stream ID must have, 1 to 64 bytes; none if it is missing.
    PublishKey,
    /// `request_key`: the key that a subscriber's Stream ID must have, 1 to 64 bytes; none if it is missing.
    RequestKey,
    /// `reserved`: the number of slots that are kept for publishers, 0 to 2 and below `sessions`; 0 if it is missing.
    Reserved,
    /// `sessions_per_address`: the greatest number of sessions of one IP address, 1 to 17; no such limit if it is
    /// missing.
    SessionsPerAddress,
    /// `takeover_ms`: the time without a data packet of the active publisher after which the standby takes over, 100 to
    /// 5000 ms; if it is missing, the standby takes over only once the active one's session has ended.
    TakeoverMs,
    /// `resend_percent`: the greatest share of a subscriber's new packets that is sent again, in percent, 5 to 1000; no
    /// limit if it is missing.
    ResendPercent,
    /// `publish_passphrase`: the passphrase of publishers, whose sessions are then encrypted, 10 to 79 bytes; none if it is
    /// missing.
    PublishPassphrase,
    /// `request_passphrase`: the same of subscribers.
    RequestPassphrase,
    /// `pbkeylen`: the length of the keys that callers with a passphrase have to bring, 16, 24 or 32 bytes; any of these if it is
    /// missing. Only a route with a passphrase may have it.
    Pbkeylen,
    /// `expect`: whether the route is expected to be on air; if it is missing, the route may be without an encoder.
    Expect,
}

/// The kind of a key's value.
#[derive(Clone, Copy)]
pub enum ValueKind {
    /// A text.
    Text,
    /// A whole number.
    Number,
    /// `true` or `false`.
    Boolean,
    /// A list of networks, in texts.
    Networks,
    /// A table.
    Table,
    /// A list of tables.
    Tables,
}

/// The limits of a key's value: of a number its value, of a text its bytes, of a list its members.
#[derive(Clone, Copy)]
pub struct Limits {
    /// The least one.
    pub least: usize,
    /// The greatest one.
    pub most: usize,
}

/// The two texts that a key allows.
#[derive(Clone, Copy)]
pub struct Choices {
    /// The first one.
    pub first: &'static str,
    /// The other one.
    pub second: &'static str,
}

impl Key {
    /// Returns the key as it is written in the configuration.
    pub fn name(self) -> &'static str
        ensures { result.now ≡ key_name self }
    {
        match self {
            Key::Secret => "secret",
            Key::Bind => "bind",
            Key::Workers => "workers",
            Key::Status => "status",
            Key::Defaults => "defaults",
            Key::Route => "route",
            Key::Name => "name",
            Key::Mode => "mode",
            Key::LatencyMs => "latency_ms",
            Key::Buffer => "buffer",
            Key::Sessions => "sessions",
            Key::Inbox => "inbox",
            Key::Outbox => "outbox",
            Key::OpenRound => "open_round",
            Key::CloseRound => "close_round",
            Key::Callers => "callers",
            Key::PublishFrom => "publish_from",
            Key::RequestFrom => "request_from",
            Key::PublishKey => "publish_key",
            Key::RequestKey => "request_key",
            Key::Reserved => "reserved",
            Key::SessionsPerAddress => "sessions_per_address",
            Key::TakeoverMs => "takeover_ms",
            Key::ResendPercent => "resend_percent",
            Key::PublishPassphrase => "publish_passphrase",
            Key::RequestPassphrase => "request_passphrase",
            Key::Pbkeylen => "pbkeylen",
            Key::Expect => "expect",
        }
    }

    /// Returns the kind of its value.
    pub fn kind(self) -> ValueKind
        ensures { result ≡ kind_of self }
    {
        match self {
            Key::Secret
            | Key::Bind
            | Key::Status
            | Key::Name
            | Key::Mode
            | Key::Callers
            | Key::PublishKey
            | Key::RequestKey
            | Key::PublishPassphrase
            | Key::RequestPassphrase => ValueKind::Text,
            Key::Workers
            | Key::LatencyMs
            | Key::Buffer
            | Key::Sessions
            | Key::Inbox
            | Key::Outbox
            | Key::OpenRound
            | Key::CloseRound
            | Key::Reserved
            | Key::SessionsPerAddress
            | Key::TakeoverMs
            | Key::ResendPercent
            | Key::Pbkeylen => ValueKind::Number,
            Key::Expect => ValueKind::Boolean,
            Key::PublishFrom | Key::RequestFrom => ValueKind::Networks,
            Key::Defaults => ValueKind::Table,
            Key::Route => ValueKind::Tables,
        }
    }

    /// Returns the limits of its value. A route's `open_round` and `sessions` narrow those of `close_round` and `reserved`. Within
    /// those of `pbkeylen` 16, 24 and 32 are allowed. A text whose form decides, an address or one of two texts, has any length up
    /// to 2^32 - 1 here, the table of defaults as many keys, and `true` or `false` any limits.
    pub fn limits(self) -> Limits
        ensures value { result ≡ limits_of self }
        ensures few { result.most < 2 ^ 32 }
    {
        let (least, most) = match self {
            Key::Secret => (SECRET_DIGITS, SECRET_DIGITS),
            Key::Workers => (1, MAX_WORKERS),
            Key::Route => (1, MAX_ROUTES),
            Key::Name => (1, MAX_NAME),
            Key::LatencyMs => (MIN_LATENCY_MS, MAX_LATENCY_MS),
            Key::Buffer => (MIN_WINDOW, MAX_WINDOW),
            Key::Sessions | Key::SessionsPerAddress => (1, MAX_SESSIONS),
            Key::Inbox | Key::Outbox => (MIN_QUEUE, MAX_QUEUE),
            Key::OpenRound => (0, MAX_ROUND),
            Key::CloseRound => (1, MAX_ROUND),
            Key::PublishFrom | Key::RequestFrom => (1, MAX_NETWORKS),
            Key::PublishKey | Key::RequestKey => (1, MAX_KEY),
            Key::Reserved => (0, MAX_RESERVED),
            Key::TakeoverMs => (MIN_TAKEOVER_MS, MAX_TAKEOVER_MS),
            Key::ResendPercent => (MIN_RESEND_PERCENT, MAX_RESEND_PERCENT),
            Key::PublishPassphrase | Key::RequestPassphrase => (MIN_PASSPHRASE, MAX_PASSPHRASE),
            Key::Pbkeylen => (MIN_KEY_BYTES, MAX_KEY_BYTES),
            Key::Bind | Key::Status | Key::Defaults | Key::Mode | Key::Callers | Key::Expect => (
                0,
                u32::MAX as usize,
            ),
        };
        Limits { least, most }
    }

    /// Returns the two texts that it allows; None if it allows others.
    pub fn choices(self) -> Option<Choices>
        ensures { option_map both_texts result ≡ choices_of self }
    {
        match self {
            Key::Mode => Some(Choices {
                first: LIVE,
                second: BUFFER,
            }),
            Key::Callers => Some(Choices {
                first: DRAFT,
                second: LIBSRT,
            }),
            _ => None,
        }
    }

    /// Whether its value is to be printed nowhere: that of the secret, those of the keys and passphrases of roles, and the defaults,
    /// which may have such keys.
    pub fn is_private(self) -> bool
        ensures { result ≡ is_private self }
    {
        match self {
            Key::Secret | Key::Defaults => true,
            Key::PublishKey | Key::RequestKey => true,
            Key::PublishPassphrase | Key::RequestPassphrase => true,
            _ => false,
        }
    }
}
