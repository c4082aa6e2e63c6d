//! The limits of the product: of a configuration's keys, and of the files, requests and lines that it reads and writes. All are
//! our choice; those of the protocol are in `protocol_limits.rt`. Types, contracts and a few bodies have these numbers as literals.

/// The minimum latency of a live session that can be configured, in milliseconds.
pub const MIN_LATENCY_MS: usize = 20;

/// The maximum latency of a live session that can be configured, in milliseconds.
pub const MAX_LATENCY_MS: usize = 8000;

/// The maximum number of open sessions of a route.
pub const MAX_SESSIONS: usize = 17;

/// The maximum number of open publishers of a route.
pub const MAX_PUBLISHERS: usize = 2;

/// The maximum number of a route's slots that are reserved for publishers. As many publishers may be open.
pub const MAX_RESERVED: usize = 2;

/// The minimum time after which a standby publisher may take over, in milliseconds.
pub const MIN_TAKEOVER_MS: usize = 100;

/// The maximum time after which a standby publisher may take over, in milliseconds.
pub const MAX_TAKEOVER_MS: usize = 5000;

/// The minimum limit on retransmitted packets, in percent of a subscriber's new packets.
pub const MIN_RESEND_PERCENT: usize = 5;

/// The maximum limit on retransmitted packets, in percent of a subscriber's new packets.
pub const MAX_RESEND_PERCENT: usize = 1000;

/// The minimum capacity of a route's inbox and outbox.
pub const MIN_QUEUE: usize = 16;

/// The maximum capacity of a route's inbox and outbox.
pub const MAX_QUEUE: usize = 4096;

/// The maximum length of a route's name, in bytes.
pub const MAX_NAME: usize = 64;

/// The maximum number of routes of a gateway.
pub const MAX_ROUTES: usize = 511;

/// The maximum number of threads that serve routes: `workers`.
pub const MAX_WORKERS: usize = 16;

/// The last round in which a route may open or close: `open_round`, `close_round`.
pub const MAX_ROUND: usize = 1_000_000_000;

/// The maximum number of networks of a list: `publish_from`, `request_from`.
pub const MAX_NETWORKS: usize = 16;

/// The maximum length of a role's key, in bytes: `publish_key`, `request_key`.
pub const MAX_KEY: usize = 64;

/// The number of hexadecimal digits of the secret: `secret`.
pub const SECRET_DIGITS: usize = 64;

/// The maximum number of rounds of `serve`.
pub const MAX_SERVE_ROUNDS: u64 = 1_000_000_000;

/// The maximum size of a configuration's file, in bytes.
pub const MAX_CONFIG: u32 = 65_536;

/// The maximum size of a configuration's file that has the table of defaults, in bytes.
pub const MAX_CONFIG_WITH_DEFAULTS: u32 = 1_048_576;

/// The maximum size of a tape's file, in bytes: 64 MiB.
pub const MAX_TAPE: u32 = 67_108_864;

/// The maximum number of lines of a tape.
pub const MAX_TAPE_LINES: u32 = 1_000_000;

/// The maximum length of a tape's line, in bytes, without its LF.
pub const MAX_TAPE_LINE: usize = 4096;

/// The maximum size of a datagram on a tape's line, in bytes: each takes two hexadecimal digits.
pub const MAX_TAPE_DATAGRAM: usize = MAX_TAPE_LINE / 2;

/// The maximum length of the head of a request to the status page, in bytes.
pub const MAX_REQUEST: usize = 4096;

/// The maximum number of header fields of a request to the status page.
pub const MAX_REQUEST_FIELDS: usize = 64;

/// The maximum time for a request to the status page to arrive, and for its response to be sent, in microseconds.
pub const REQUEST_TIMEOUT: u64 = 2_000_000;

/// The maximum number of connections to the status page at once. Those beyond are closed as soon as they are accepted.
pub const MAX_CONNECTIONS: usize = 16;

/// The maximum length of a line of the log, in bytes, with its line feed.
pub const MAX_LOG_LINE: usize = 1024;

/// The maximum number of lines of the log in a second about sessions, routes and changes of the configuration.
pub const MAX_SESSION_LINES: u64 = 40;

/// The maximum number of lines of the log in a second about refused callers.
pub const MAX_REFUSAL_LINES: u64 = 10;
