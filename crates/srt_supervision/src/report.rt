//! What a poller counts.

/// The counts of a poller. Each saturates at 2^64 - 1. `read` is the sum of `answered`, `accepted`, `full`, `dropped`
/// and `memory`, unless a count is saturated; `not_allowed` is a part of `dropped`.
#[derive(Clone, Copy, Debug, PartialEq, Eq)]
pub struct Report {
    /// Datagrams that were read.
    pub read: u64,
    /// Of these, those that the lobby answered, whether or not the answer was sent.
    pub answered: u64,
    /// Of these, those that their route's inbox accepted.
    pub accepted: u64,
    /// Of these, those for a route whose inbox was full.
    pub full: u64,
    /// Of these, those that the lobby dropped (`srt_lobby::Cause`).
    pub dropped: u64,
    /// Of those that the lobby dropped, those whose sender's address is in none of the lists of the route that they
    /// were sent to (`srt_lobby::Cause::NotAllowed`).
    pub not_allowed: u64,
    /// Of these, those for a route for whose copy memory was refused.
    pub memory: u64,
    /// Answers and replies that the wire took.
    pub sent: u64,
    /// Answers and replies that are lost: a failed send, an answer whose send returned Later, and a reply still kept at
    /// the end.
    pub lost: u64,
    /// Failed waits, reads and sends.
    pub faults: u64,
}

impl Report {
    /// All counts 0.
    pub const NOTHING: Report = Report {
        read: 0,
        answered: 0,
        accepted: 0,
        full: 0,
        dropped: 0,
        not_allowed: 0,
        memory: 0,
        sent: 0,
        lost: 0,
        faults: 0,
    };
}
