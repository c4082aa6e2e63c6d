//! The gateway's configuration, and what a changed one requests of a running gateway.
//!
//! Reading takes texts as arguments; the only files that it opens are those of `read_configuration` and `read_file`. The program is
//! `srtgw`; explanations for people are in `srt_explain`.
//!
//! Types: `Config`, the secret, the address and the routes' entries; `ConfigFault`, the first thing that is wrong, with
//! its `Key`, and `PlacedFault`, with its `Place`; `ValueKind`, `Limits` and `Choices`, what a key allows; `Changes`, what a
//! changed configuration requests; `RouteNumbers`, the numbers of a route; `Parts`, a text split at a byte; `Unread`, why a file wasn't read.
//!
//! Calls: `read_configuration` reads the bytes of a configuration's file, as many as `is_within_limits`, and `read_file` those of any
//! file up to a limit, by `read_within`; `read_config` on its text, or `read_table` on its table
//! after `with_defaults`, and `all_faults` for what else is wrong with it; `changes_between` two of them, and `is_readmission` for
//! which of the routes that open again have other lists and keys alone; `read_number` and `parted` on other texts that have
//! decimal digits, or one byte between their parts.
//!
//! Files: `config/keys.rt` has the keys with their kinds and limits (docs/CONFIGURATION.md), `config/typed_values.rt` reads the
//! value of a key, and the others of `config/` read a configuration by them; `changes.rt` compares two configurations, by the
//! keys in `same_keys.rt`, and `readmission.rt` finds the routes that differ in lists and keys alone; `numbers.rt` reads numbers;
//! `splitting.rt` splits a text; `files.rt` reads files, and `config_file.rt` those of configurations. `laws.rt` states which fault
//! is a configuration's, which route has it, and what the comparison of two configurations means.
#![tactic(auto)]

mod changes;
mod config;
mod config_file;
mod files;
pub mod laws;
mod numbers;
mod readmission;
mod same_keys;
mod splitting;

pub use changes::{Changes, FixedKeys, RouteChange, changes_between};
pub use config::{
    BindAddress, Choices, Config, ConfigFault, DEFAULT_KEYS, Key, Limits, Place, PlacedFault,
    ROUTE_KEYS, RouteNumbers, TOP_KEYS, ValueKind, all_faults, is_key_text, is_within_limits,
    read_config, read_network, read_table, with_defaults,
};
pub use config_file::read_configuration;
pub use files::{Unread, read_file, read_within};
pub use numbers::read_number;
pub use readmission::is_readmission;
pub use splitting::{Parts, parted};

#[cfg(test)]
mod tests;
