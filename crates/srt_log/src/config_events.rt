//! What a line of the log states of a configuration that was changed while the gateway runs.

use srt_config::FixedKeys;

/// The number of routes of each kind in a changed configuration.
#[derive(Clone, Copy)]
pub struct ChangeSummary {
    /// Those that stay as they are.
    pub staying: u64,
    /// Those that open: no route had their name.
    pub opening: u64,
    /// Those that close: it doesn't have their name.
    pub closing: u64,
    /// Those that close and open again, since a key of theirs has another value.
    pub changing: u64,
}

/// Why a route closes while the gateway runs.
#[derive(Clone, Copy)]
pub enum CloseCause {
    /// The configuration doesn't have its name any more.
    Removed,
    /// A key of the route has another value.
    OtherKeys,
}

/// What a line says of a configuration that was changed.
#[derive(Clone, Copy)]
pub enum ConfigEvent<'a> {
    /// It is taken. A line for each route follows that closes or opens.
    Taken {
        /// How many routes it has of each kind.
        routes: ChangeSummary,
    },
    /// A route closes.
    RouteCloses {
        /// Its name.
        route: &'a [u8],
        /// Why.
        cause: CloseCause,
    },
    /// A route opens.
    RouteOpens {
        /// Its name.
        route: &'a [u8],
        /// Its index.
        index: u64,
        /// The memory that it takes, in megabytes of 1,048,576 bytes.
        megabytes: u64,
    },
    /// It isn't taken: keys have other values that can't change.
    KeysDiffer {
        /// Which. At least one does.
        keys: FixedKeys,
    },
    /// It isn't taken: it has a fault.
    Wrong {
        /// What is wrong, as `check --explain` says it.
        why: &'a [u8],
    },
    /// It isn't taken: memory was refused for a route.
    NoMemory {
        /// Its name.
        route: &'a [u8],
    },
    /// It isn't taken: more routes are to open than indexes are left.
    NoIndexes {
        /// The routes that are to open.
        opens: u64,
        /// The indexes that are left.
        left: u64,
    },
    /// Its file can't be read.
    Unread {
        /// Why, in the system's words.
        why: &'a [u8],
    },
    /// It isn't taken yet: it closes a route that has sessions. It is taken if the file is the same five seconds later.
    Held {
        /// The route's name: the first one.
        route: &'a [u8],
    },
    /// Few indexes are left for routes that open while the gateway runs.
    FewIndexes {
        /// Their number.
        left: u64,
    },
}
