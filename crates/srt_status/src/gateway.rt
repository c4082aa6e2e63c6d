//! The state of the gateway as a whole, as the page shows it.

use srt_supervision::Report;

/// The refused conclusions, by code (draft-sharabayko-srt-01, section 4.3, table 7). The numbers and names are those of
/// `srt_hs::RefusalCode`.
#[derive(Clone, Copy, Default)]
pub struct RefusalCounts {
    /// 1002, `PEER`.
    pub peer: u64,
    /// 1003, `RESOURCE`.
    pub resource: u64,
    /// 1004, `ROGUE`.
    pub rogue: u64,
    /// 1008, `VERSION`.
    pub version: u64,
    /// 1010, `BADSECRET`.
    pub bad_secret: u64,
    /// 1011, `UNSECURE`.
    pub unsecure: u64,
    /// 1012, `MESSAGEAPI`.
    pub message_api: u64,
    /// 1014, `FILTER`.
    pub filter: u64,
    /// 1015, `GROUP`.
    pub group: u64,
}

/// The conclusions that the lobby refused with 1002, by reason.
#[derive(Clone, Copy, Default, PartialEq, Eq)]
pub struct CauseCounts {
    /// The Stream ID is missing, or has a fault.
    pub no_name: u64,
    /// No route has the name.
    pub unknown_name: u64,
    /// The address isn't in the route's `publish_from`.
    pub publish_from: u64,
    /// The address isn't in the route's `request_from`.
    pub request_from: u64,
    /// The `publish_key` is missing or wrong.
    pub publish_key: u64,
    /// The `request_key` is missing or wrong.
    pub request_key: u64,
}

/// The changes of the configuration while the gateway runs.
#[derive(Clone, Copy, Default, PartialEq, Eq)]
pub struct ChangeCounts {
    /// Changed configurations that were taken, and by which a route opened or closed.
    pub taken: u64,
    /// Changed configurations that weren't taken.
    pub refused: u64,
    /// The indexes that routes have used so far, those of the start included; there are 511.
    pub indexes: u64,
}

/// What the system tells of the process; `None` where it isn't known.
#[derive(Clone, Copy, Default, PartialEq, Eq)]
pub struct ProcessUse {
    /// The processor time of all its threads since its start, in microseconds.
    pub cpu_micros: Option<u64>,
    /// The file descriptors that it has open.
    pub open_descriptors: Option<u64>,
    /// The most that it may have open.
    pub most_descriptors: Option<u64>,
    /// The time of its start, in microseconds since 1970 (UTC).
    pub started_micros: Option<u64>,
}

/// The gateway at one time.
#[derive(Clone, Copy)]
pub struct GatewayStatus<'a> {
    /// The version of the program, as `srtgw --version` prints it.
    pub version: &'a str,
    /// The whole seconds since the start.
    pub uptime_seconds: u64,
    /// The time, in microseconds of the routes' clock.
    pub moment: u64,
    /// The number of routes that the configuration in force names.
    pub routes: u32,
    /// Whether the poller made a round within the last two seconds.
    pub polling: bool,
    /// The poller's counters.
    pub poller: Report,
    /// The conclusions that the lobby refused.
    pub refused: RefusalCounts,
    /// The conclusions that the lobby refused with 1002.
    pub causes: CauseCounts,
    /// The changes of the configuration.
    pub changes: ChangeCounts,
    /// The datagrams that the kernel dropped at the socket, since its buffer was full; None if it isn't known.
    pub kernel_drops: Option<u64>,
    /// The resident memory of the process, in bytes; None if it isn't known.
    pub resident_bytes: Option<u64>,
    /// What the process uses besides.
    pub process: ProcessUse,
    /// The bytes that the kernel holds for datagrams at the socket before it drops any; None if it isn't known.
    pub receive_buffer_bytes: Option<u64>,
}
