//! The types that several crates share.

ghost use Rattle.std.specs.Prelude.{◌<◌, ◌≤◌, length};

/// The address and port of the sender or receiver of a datagram. An IPv4 address has the form `::ffff:a.b.c.d`.
#[derive(Clone, Copy, Debug, PartialEq, Eq)]
pub struct Peer {
    /// The IPv6 address, in network byte order.
    pub ip: [u8; 16],
    /// The UDP port, 0 to 65535.
    pub port: u16,
}

/// The reason for which no route admits a caller. The variants are in the order in which the reasons are checked (our
/// choice). The conclusion of such a caller is refused with 1002 (SRT_REJ_PEER).
#[derive(Clone, Copy, Debug, PartialEq, Eq)]
pub enum NotAdmitted {
    /// It has no Stream ID, or one with a fault (appendix B).
    NoName,
    /// No visible route has the requested name.
    UnknownName,
    /// The list of the requested role, `publish_from` or `request_from`, doesn't contain the caller's address.
    Address(Role),
    /// The Stream ID lacks the key of the requested role, `publish_key` or `request_key`, or has another one.
    Key(Role),
}

/// The delivery mode of a route.
#[derive(Clone, Copy, Debug, PartialEq, Eq)]
pub enum Mode {
    /// Live mode: each payload at the time that its timestamp defines. One that arrives too late is dropped (section
    /// 4.5).
    Live,
    /// Buffer mode: an unbroken stream of bytes, as fast as the slowest subscriber receives it (section 4.2.2).
    Buffer,
}

/// The role that a caller requests (the key `m` of a Stream ID, appendix B).
#[derive(Clone, Copy, Debug, PartialEq, Eq)]
pub enum Role {
    /// The caller sends the stream to the route.
    Publish,
    /// The caller receives the stream from the route.
    Request,
}

/// The result of one `turn` of a route, which makes at most one step.
#[derive(Clone, Copy, Debug, PartialEq, Eq)]
pub enum Turned {
    /// The first waiting reply was moved to the outbox.
    Moved,
    /// The first item of the inbox was processed.
    Applied,
    /// A reply is waiting, but the outbox is full. Nothing changed.
    Blocked,
    /// No reply is waiting, and the inbox is empty. Nothing changed.
    Idle,
}

/// A network: consecutive addresses of IPv4 or of IPv6. An address is a number with its first byte as the most
/// significant one.
#[derive(Clone, Copy, Debug, PartialEq, Eq)]
pub enum Network {
    /// Addresses of IPv4.
    V4 {
        /// The first address.
        first: u32,
        /// The number of addresses: 1 to 2^32.
        size: u64,
    },
    /// The addresses of IPv6 that have their first bits in common. It contains no address of the form
    /// `::ffff:a.b.c.d`, which is an IPv4 address.
    V6 {
        /// The first address.
        first: u128,
        /// The number of bits: 0 to 128.
        prefix: u32,
    },
}

/// The access rules for one role. A list or key that is `None` admits every caller. No type with a passphrase has a
/// `Debug`: none is ever printed.
#[derive(Drop)]
pub struct RoleAccess {
    /// The networks that admitted callers connect from: 1 to 16, of IPv4, of IPv6 or of both. If present, no other
    /// address is admitted.
    pub from: Option<Vec<Network>>,
    /// The key that a Stream ID must have: 1 to 64 bytes.
    pub key: Option<String>,
    /// The passphrase of encrypted sessions: 10 to 79 bytes. If present, a conclusion must bring keys that are wrapped
    /// under it, and the role is *secured*; otherwise none is admitted that brings keys (section 3.2.2).
    pub passphrase: Option<String>,
}

/// The length of the keys of an encrypted session: the field KLen (section 3.2.2).
#[derive(Clone, Copy, Debug, PartialEq, Eq)]
pub enum KeyLength {
    /// 16 bytes: AES-128.
    Aes128,
    /// 24 bytes: AES-192.
    Aes192,
    /// 32 bytes: AES-256.
    Aes256,
}

/// The access rules of a route (our choice).
#[derive(Drop)]
pub struct Access {
    /// The rules for publishers.
    pub publish: RoleAccess,
    /// The rules for callers that request the stream.
    pub request: RoleAccess,
    /// The length of the keys that callers of secured roles must bring; None if they choose it.
    pub key_length: Option<KeyLength>,
}

/// What a route does beyond the draft if its configuration enables it (our choice). The type doesn't enforce the limits
/// of its fields: `in_limits` of an [`Entry`] checks them.
#[derive(Clone, Copy, Debug, PartialEq, Eq)]
pub struct Rules {
    /// The rules that its sessions follow where libsrt's differ from the draft's.
    pub callers: Callers,
    /// The number of slots reserved for publishers: 0 to 2, and fewer than the route's sessions.
    pub reserved: u32,
    /// The maximum number of open sessions of one site, on all ports: 1 to 17; no separate limit if `None`. An IPv4
    /// address is a site, and so are the IPv6 addresses that have their first 64 bits in common.
    pub sessions_per_address: Option<u32>,
    /// The time without a data packet of the active publisher after which the standby takes over, in milliseconds: 100
    /// to 5000. Unused in buffer mode. If `None`, the standby takes over only when the active publisher's session has
    /// ended.
    pub takeover_ms: Option<u32>,
    /// The limit on retransmitted packets, in percent of a subscriber's new packets: 5 to 1000. If `None`, all lost
    /// packets are retransmitted.
    pub resend_percent: Option<u32>,
}

/// The configuration of one route. The type doesn't enforce the limits of its fields: `in_limits` and `is_name` check
/// them.
#[derive(Drop)]
pub struct Entry {
    /// The name that Stream IDs request: 1 to 64 bytes, as `is_name` requires.
    pub name: String,
    /// The delivery mode.
    pub mode: Mode,
    /// The minimum latency of a live session, in milliseconds: 20 to 8000. Callers may request more. Unused in buffer
    /// mode.
    pub latency_ms: u32,
    /// The size of each session's window, in packets: 32 to 8192.
    pub buffer: u32,
    /// The maximum number of open sessions: 1 to 17. At most two of them publish.
    pub sessions: u32,
    /// The maximum number of items waiting to be processed: 16 to 4096.
    pub inbox: u32,
    /// The maximum number of replies waiting to be sent: 16 to 4096.
    pub outbox: u32,
    /// The access rules.
    pub access: Access,
    /// The rules beyond the draft.
    pub rules: Rules,
}

/// When a route opens and closes in a run, in rounds of its poller, counted from 0. The type doesn't enforce that it
/// closes after it opens: readers of configurations check it.
#[derive(Clone, Copy, Debug, PartialEq, Eq)]
pub struct Schedule {
    /// The round at whose start the route opens; 0 if it is open from the start.
    pub open_round: u32,
    /// The round at whose start the route closes; `None` if it stays open.
    pub close_round: Option<u32>,
}

/// One input of a route.
#[derive(Debug, Drop)]
pub enum Item {
    /// A received datagram.
    Datagram {
        /// The sender.
        peer: Peer,
        /// The time of arrival, in microseconds: below [`MOMENT_END`](crate::MOMENT_END).
        moment: u64,
        /// The first 16 bytes: the header of a packet.
        head: [u8; 16],
        /// The bytes after the header; empty if there are none.
        body: Vec<u8>,
    },
    /// Time passes without an arrival.
    Tick {
        /// The time, in microseconds: below [`MOMENT_END`](crate::MOMENT_END).
        moment: u64,
    },
    /// The end of the route. Its sessions end, and each one's peer is sent a SHUTDOWN (section 3.2.7). Afterwards the
    /// route replies to nothing.
    Close {
        /// The time, in microseconds: below [`MOMENT_END`](crate::MOMENT_END).
        moment: u64,
    },
}

/// The payload of a data packet, 1 to 1456 bytes, borrowed from the datagram or the buffer that holds it.
#[derive(Clone, Copy, Debug)]
pub struct PayloadRef<'a> {
    /// The bytes: 1 to 1456.
    pub bytes: &'a [u8],
    pub ghost some: { 0 < length bytes.now },
    pub ghost most: { length bytes.now ≤ 1456 },
}

/// Why a route, a hub or a table of names could not be opened. Memory allocated before the fault is freed.
#[derive(Clone, Copy, Debug, PartialEq, Eq)]
pub enum OpenFault {
    /// A route's name isn't as `is_name` requires, or two routes have the same name.
    Names,
    /// A number of an [`Entry`], the number of routes or a route's index is outside its limits.
    Limits,
    /// An allocation failed.
    OutOfMemory,
}

/// The rules that the sessions of a route follow where libsrt's differ from the draft's. Most callers run libsrt.
#[derive(Clone, Copy, Debug, PartialEq, Eq)]
pub enum Callers {
    /// The draft's rules, exactly.
    Draft,
    /// The rules for callers that run libsrt: the first sample of the round-trip time is used unsmoothed, Full ACKs of
    /// buffer mode report rates, a leaving publisher's session drains, and callers are notified of session ends and of
    /// the end of a file.
    Libsrt,
}
