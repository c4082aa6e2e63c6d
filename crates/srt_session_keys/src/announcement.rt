//! When a key of a subscriber's session is announced, announced again, and given up (our choice).

/// A key is announced this many payloads before it is needed.
pub(crate) const ANNOUNCED_BEFORE: u64 = 65_536;

/// The time after which an announcement is repeated, in microseconds.
pub(crate) const REPEATED_AFTER_US: u64 = 50_000;

/// The time after which a session is given up whose key isn't confirmed, in microseconds.
pub(crate) const GIVEN_UP_AFTER_US: u64 = 5_000_000;

/// When a key was announced to a subscriber, in microseconds.
#[derive(Clone, Copy)]
pub(crate) struct Announcement {
    pub(crate) first: u64,
    pub(crate) last: u64,
}
