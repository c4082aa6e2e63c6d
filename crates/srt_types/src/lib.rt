//! The vocabulary of the gateway: sequence numbers, message numbers and timestamps of packets, words of 32 bits, and
//! the types that routes, hub and configuration share (draft-sharabayko-srt-01, sections 3 and 3.1).
//!
//! It decodes no packets and holds no sessions: packets are in `srt_packet`, and what a number does to a session is in
//! `srt_pub` and `srt_sub`. No function here reads a clock. Only copies of access rules allocate.
//!
//! Numbers: [`Seq31`], a packet sequence number (31 bits), and [`Msg26`], a message number (1 to 2^26 - 1), in
//! `numbers.rt`; [`Stamp32`], a timestamp in microseconds modulo 2^32, in `stamps.rt`. Each wraps. To compare two of
//! them, first choose a reference: `Seq31::offset_in` a window, or `Stamp32::lift` near a time.
//!
//! Shared types, in `shared.rt`: [`Peer`], [`Item`] (the input of a route), [`PayloadRef`], [`Entry`] (a route's
//! configuration), [`Access`] (its access rules), [`KeyLength`] (that of encrypted sessions), [`NotAdmitted`] (the reason
//! for a rejection), [`Rules`] (what a route does beyond the draft), [`Schedule`] (when it opens and closes), [`Mode`], [`Role`], [`Callers`], [`Turned`],
//! [`OpenFault`]. An `Entry` is checked in `entries.rt`, a route's name in `route_name.rt`, a caller in `access.rt`; words
//! in network byte order are in `words.rt`, what sessions are counted by in `sites.rt`, all limits and intervals of the
//! protocol in `protocol_limits.rt`, and those of configurations and inputs in `product_limits.rt`.
#![tactic(auto)]

mod access;
mod entries;
pub mod laws;
mod numbers;
pub mod product_limits;
pub mod protocol_limits;
mod route_name;
mod shared;
mod sites;
mod stamps;
mod words;

pub use access::is_mapped;
pub use entries::is_between;
pub use numbers::{Msg26, Seq31};
pub use protocol_limits::MOMENT_END;
pub use route_name::is_name;
pub use shared::{
    Access, Callers, Entry, Item, KeyLength, Mode, Network, NotAdmitted, OpenFault, PayloadRef,
    Peer, Role, RoleAccess, Rules, Schedule, Turned,
};
pub use sites::is_same_site;
pub use stamps::Stamp32;
pub use words::{read_word, write_at, write_words};

#[cfg(test)]
mod tests;
