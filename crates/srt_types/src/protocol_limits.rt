//! The limits and intervals of the protocol (draft-sharabayko-srt-01), and those that it leaves to implementations
//! (*our choice*). libsrt's name of a value is stated where it has one. Types, contracts and a few bodies have these
//! numbers as literals.

/// The exclusive upper bound of times: 2^62 microseconds. Times count from the gateway's start; in a replay they are
/// those of the tape.
pub const MOMENT_END: u64 = 1 << 62;

/// The maximum size of a datagram, in bytes: an MTU of 1500 less the 28 bytes of the IPv4 and UDP headers.
pub const MAX_DATAGRAM: usize = 1472;

/// The maximum size of a payload, in bytes: a datagram less the 16 bytes of the SRT header (section 3). libsrt:
/// `SRT_LIVE_MAX_PLSIZE`.
pub const MAX_PAYLOAD: usize = 1456;

/// The size of the buffer for one read of a socket, in bytes (our choice). It is greater than the largest datagram, so
/// that a longer one is seen to be too long.
pub const READ_ROOM: usize = 2048;

/// The size of the IP, UDP and SRT headers before a payload, in bytes. An MTU includes them.
pub const HEADERS: usize = 44;

/// The minimum MTU of a caller, in bytes (section 3.2.1 has the field; the bound is our choice).
pub const MIN_MTU: u32 = 76;

/// The maximum MTU that is agreed, in bytes (section 3.2.1 has the field; the bound is our choice).
pub const MAX_MTU: u32 = 1500;

/// The maximum length of a Stream ID, in bytes (section 3.2.1.3). libsrt: `MAX_SID_LENGTH`.
pub const MAX_STREAM_ID: usize = 512;

/// The maximum size of a key material message, in bytes: 16 before the salt, 16 of salt, and two keys of 32 bytes that are
/// wrapped together, 8 bytes longer (section 3.2.2).
pub const MAX_KEY_MESSAGE: usize = 104;

/// The maximum size of the answer to a handshake, in bytes, without the packet's header and without keys: 48 of the
/// handshake (section 3.2.1), 16 of an HSRSP block (section 3.2.1.1) and 20 of a CONGESTION block, whose text is at most
/// 16 (our choice).
pub const MAX_ANSWER: usize = 84;

/// The maximum size of such an answer with keys, in bytes: 108 more, the 4 before a block's contents and the largest key
/// material message (section 3.2.2).
pub const MAX_ANSWER_WITH_KEYS: usize = 192;

/// The minimum size of a session's window, in packets (our choice).
pub const MIN_WINDOW: usize = 32;

/// The maximum size of a session's window, in packets (our choice).
pub const MAX_WINDOW: usize = 8192;

/// The exclusive upper bound of the distance from the first to the last sequence number of a range, and of how far a
/// number may be past the window: 2^30 packets (our choice).
pub const RANGE_END: u32 = 1 << 30;

/// How far back an ACK's number may be, in packets: the maximum distance from the base, the first number that an ACK
/// may name, to the front, the first number neither acknowledged nor expired (section 3.2.4 has the ACK; the bound is
/// our choice).
pub const ACK_REACH: usize = 8192;

/// The minimum time between two Full ACKs, in microseconds (section 4.8.1). libsrt: `COMM_SYN_INTERVAL_US`.
pub const FULL_ACK_INTERVAL_US: u64 = 10_000;

/// The number of data packets after which a Light ACK is sent (section 4.8.1). libsrt: `SELF_CLOCK_INTERVAL`.
pub const LIGHT_ACK_PACKETS: u32 = 64;

/// The number of most recent Full ACKs that an ACKACK can confirm (our choice).
pub const FULL_ACKS_KEPT: usize = 64;

/// The maximum sample of the round-trip time, in microseconds (our choice).
pub const MAX_RTT_SAMPLE_US: u64 = 10_000_000;

/// The minimum time between two NAKs of all gaps, in microseconds (section 4.8.2).
pub const MIN_NAK_INTERVAL_US: u64 = 20_000;

/// The maximum number of runs of missing numbers in one NAK (section 4.8.2 has the report; the bound is our choice).
pub const MAX_NAK_RUNS: usize = 32;

/// The maximum number of words in the loss list of one NAK: two for each run (appendix A).
pub const MAX_NAK_WORDS: usize = 2 * MAX_NAK_RUNS;

/// The margin added to RTT + 4 x RTTVar before all packets in flight are retransmitted, in microseconds (our choice).
pub const RESEND_MARGIN_US: u64 = 20_000;

/// The time without a sent packet after which a KEEPALIVE is sent, in microseconds (section 3.2.3). libsrt:
/// `COMM_KEEPALIVE_PERIOD_US`.
pub const KEEP_ALIVE_AFTER_US: u64 = 1_000_000;

/// The time without a packet from a caller after which its session ends, in microseconds (our choice). libsrt:
/// `COMM_RESPONSE_TIMEOUT_MS`.
pub const PEER_IDLE_TIMEOUT_US: u64 = 5_000_000;

/// The minimum threshold of too-late packet drop, in microseconds (section 4.6). libsrt:
/// `SRT_TLPKTDROP_MINTHRESHOLD_MS`.
pub const MIN_TLPKTDROP_US: u64 = 1_000_000;

/// The maximum number of data packets that a session sends in one event (our choice).
pub const MAX_EVENT_PACKETS: u32 = 64;

/// The maximum number of payloads that a route delivers in one event (our choice).
pub const MAX_PAYLOADS: u32 = 64;
