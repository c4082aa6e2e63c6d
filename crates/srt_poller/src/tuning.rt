//! The poller's tuned constants, measured by `bench/relay`. Those of the other threads are `srt_wakeups::pacing`.

/// The most datagrams that are read in a round.
pub(crate) const READS_PER_ROUND: u32 = 256;

/// The most replies of a route that are sent in a round.
pub(crate) const REPLIES_PER_ROUTE: u32 = 64;

/// A round whose number is a multiple of this checks all outboxes, whatever their hints are. A reply without a hint waits
/// no longer.
pub(crate) const ROUNDS_PER_FULL_CHECK: u64 = 64;

/// The most buffers of datagrams that are kept to be filled again: as many as a round of a worker over all routes returns.
pub(crate) const SPARE_BUFFERS: usize = 512;

/// The number of short waits after a datagram arrived or a send returned Later.
pub(crate) const SHORT_WAITS: u32 = 100;

/// After a round that read or sent this many datagrams there may be more to do at once. A nap could then leave a route
/// with more replies than a round sends.
pub(crate) const BURST: u32 = 64;

/// Datagrams arrive densely if a millisecond had this many, and too densely for naps if it had `TOO_DENSE`: then many are
/// there at each wait without them.
pub(crate) const DENSE: u32 = 20;

pub(crate) const TOO_DENSE: u32 = 100;

/// A nap, in nanoseconds.
pub(crate) const NAP_NS: u32 = 100_000;

/// The size of the receive buffer that is requested from the system, in bytes (SO_RCVBUF).
pub(crate) const RECEIVE_BUFFER: u32 = 4_194_304;
