//! The events of the log.

use crate::config_events::ConfigEvent;
use srt_route::Traffic;
use srt_types::{KeyLength, NotAdmitted, Peer, Role};

/// A session as a line names it.
#[derive(Clone, Copy)]
pub struct Caller<'a> {
    /// The route's name.
    pub route: &'a [u8],
    /// The side of the stream.
    pub role: Role,
    /// The caller's address and port.
    pub peer: Peer,
    /// The socket ID of the session here.
    pub id: u32,
}

/// How a publisher's clock was followed. Both numbers are positive for a clock that is slow.
#[derive(Clone, Copy)]
pub struct ClockDrift {
    /// The correction in parts per million of the time that the session was open, rounded toward 0.
    pub ppm: i128,
    /// Microseconds by which delivery moved since the opening.
    pub correction: i64,
}

/// Something wrong with a session's stream, of which its caller learns nothing.
#[derive(Clone, Copy, PartialEq, Eq)]
pub enum Trouble {
    /// Data packets arrived from a caller that didn't ask to publish. They are ignored.
    Misdirected,
    /// Full ACKs reported that no place of a publisher's window was available, so that its encoder waits or loses packets.
    FullWindow,
    /// Packets of a publisher arrived after their place was passed. They are ignored.
    LatePackets,
}

/// Why a session ended.
#[derive(Clone, Copy)]
pub enum EndReason {
    /// Its peer sent a SHUTDOWN.
    Shutdown,
    /// Its peer sent a SHUTDOWN, and what was left then couldn't be delivered in time.
    DrainedTooLong,
    /// Nothing arrived from its peer for five seconds.
    Silence,
    /// Its window moved past packets that were neither received nor given up.
    WindowLost,
    /// The stream has ended, and all of it was delivered.
    StreamEnd,
    /// Its route was closed.
    RouteClosed,
    /// The gateway stops.
    GatewayStops,
    /// It isn't known: another session is in its slot.
    Unknown,
}

/// Why the gateway stops.
#[derive(Clone, Copy)]
pub enum StopCause {
    /// A signal: SIGINT or SIGTERM.
    Signal,
    /// The time of `--for` has expired.
    Duration,
    /// All rounds were made.
    Rounds,
}

/// An event of the log: the content of one line.
#[derive(Clone, Copy)]
pub enum LogEvent<'a> {
    /// The gateway serves callers.
    Started {
        /// The address of its socket, in the form of a peer's.
        ip: [u8; 16],
        /// The port.
        port: u16,
        /// The number of routes.
        routes: u32,
        /// The number of worker threads.
        workers: u32,
        /// The memory of the process, in bytes.
        memory: u64,
    },
    /// A session opened.
    Opened {
        /// The session.
        caller: Caller<'a>,
        /// Whether it is a publisher that stands by.
        standby: bool,
        /// Its delay in milliseconds; `None` in buffer mode.
        latency_ms: Option<u32>,
        /// The length of its keys; `None` if it isn't encrypted, or if it had ended again when it was seen.
        key_length: Option<KeyLength>,
    },
    /// A session ended.
    Ended {
        /// The session.
        caller: Caller<'a>,
        /// Why.
        reason: EndReason,
        /// How long it was open, in milliseconds.
        lasted_ms: u64,
        /// Its counts, as its snapshot has them.
        traffic: Traffic,
        /// How its clock was followed; `None` where it isn't followed.
        clock: Option<ClockDrift>,
    },
    /// A publisher that stood by is the active one now.
    TookOver {
        /// Its session.
        caller: Caller<'a>,
    },
    /// Something is wrong with a session's stream.
    Troubled {
        /// The session.
        caller: Caller<'a>,
        /// What is wrong.
        trouble: Trouble,
    },
    /// A conclusion was refused.
    Refused {
        /// The number of the reason (draft-sharabayko-srt-01, section 4.3, table 7).
        code: u32,
        /// The caller's address and port.
        peer: Peer,
        /// The name that it requested, as it was received.
        name: &'a [u8],
        /// The reason for the rejection, if that is known.
        by: Option<NotAdmitted>,
    },
    /// A caller was refused again since its last line, for the same name and reason.
    RefusedAgain {
        /// Its address; an IPv4 address is `::ffff:a.b.c.d`.
        ip: [u8; 16],
        /// The number of the reason.
        code: u32,
        /// The name that it requested, or its first bytes.
        name: &'a [u8],
        /// The reason for the rejection, if that is known.
        by: Option<NotAdmitted>,
        /// How often.
        count: u64,
    },
    /// The limits of a route refused conclusions with 1003 between two snapshots. Each of these has its own line.
    Limited {
        /// The route's name.
        route: &'a [u8],
        /// Those that found no slot free.
        full: u64,
        /// Those that requested a subscriber's session while the free slots were reserved for publishers.
        reserved: u64,
        /// Those whose address had as many open sessions as `sessions_per_address` allows.
        per_address: u64,
    },
    /// Sessions opened and ended on a route between two snapshots. Only their number is known.
    Unseen {
        /// The route's name.
        route: &'a [u8],
        /// Their number.
        opened: u64,
    },
    /// A route that is expected to be on air has no active publisher.
    Absent {
        /// The route's name.
        route: &'a [u8],
        /// For how many minutes, in tens; 0 as that begins.
        minutes: u64,
    },
    /// An event of a configuration that was changed while the gateway runs.
    Config {
        /// What it is.
        event: ConfigEvent<'a>,
    },
    /// SIGINT and SIGTERM aren't blocked, so that either ends the gateway at once.
    Unblocked,
    /// A warning of the configuration.
    Warned {
        /// Its text.
        warning: &'a [u8],
    },
    /// Errors of the socket since the last such line.
    SocketFaults {
        /// Their number.
        count: u64,
    },
    /// The kernel dropped datagrams at the socket since the last such line: its buffer was full.
    KernelDrops {
        /// Their number.
        count: u64,
    },
    /// Lines were left out, since there were too many in a second.
    LeftOut {
        /// Their number.
        count: u64,
    },
    /// A stop was requested.
    StopRequested {
        /// Why.
        by: StopCause,
    },
    /// The gateway has stopped. No line follows.
    Stopped,
}
