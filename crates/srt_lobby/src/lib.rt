//! The lobby: classifies each datagram before any route processes it. It answers inductions, refuses conclusions, drops
//! datagrams that no route can use, and finds the route of all others.
//!
//! It keeps no state about callers: the class of a datagram depends only on the secret, the routes' names and access
//! rules, the sender, the bytes and the arrival time. It opens no session and doesn't inspect a route's state
//! (`srt_route` does).
//!
//! Types: `Names`, the routes' names with their indexes; `NewName`, the allocated name of a route to be added; `Class`,
//! what is done with a datagram; `Cause`, why it is dropped. `NotAdmitted` of `srt_types` is the reason for a refusal
//! with 1002.
//!
//! Functions: `Names::open` once; then `classify` for each datagram, and `add`, `hide` and `show` when routes are added
//! and removed at run time. If the thread that classifies must not allocate, another thread allocates a `NewName`; then
//! neither `append` nor, once `is_unused` is true, `show` allocates. `refusal_cause` returns the reason for which a
//! conclusion was refused, for a log. `is_taken` is for readers of configurations.
//!
//! The lists and keys of an open route are replaced so: another thread allocates a `NewAccess`, `Names::replace_access`
//! puts it in force for the next datagram, and that thread drops the `ReplacedAccess`. Neither is allocated or freed by
//! the thread that classifies.
//!
//! Files: `lobby.rt` has the checks in their order (docs/PROTOCOL.md, "Where a datagram goes"): destination, handshake,
//! cookie; `refusals.rt` those of a conclusion: 1008, 1004, 1011, 1014, 1015 and 1002, and 1011 again for keys that a
//! secured role lacks. `encryption_refusals.rt` has both cases of 1011: keys without a passphrase, and a passphrase without
//! keys. `access_lists.rt` has who is admitted: a conclusion by the list and key of its role, a packet to a session by the
//! lists. `classes.rt` has the classes and causes, `causes_for_monitoring.rt` the causes of a 1002, `names.rt` the names and
//! their table, `new_name.rt` the name of a route to be added, `new_access.rt` the lists and keys that replace others,
//! `entry_faults.rt` the entries that a gateway can't be opened with, and `laws.rt` what is proved of all of it. The
//! definition is `specs/Lobby.antt`.
#![tactic(auto)]

mod access_lists;
mod causes_for_monitoring;
mod classes;
mod encryption_refusals;
mod entry_faults;
pub mod laws;
mod lobby;
mod names;
mod new_access;
mod new_name;
mod refusals;

pub use causes_for_monitoring::refusal_cause;
pub use classes::{Cause, Class, LOBBY_ANSWER};
pub use entry_faults::is_taken;
pub use lobby::classify;
pub use names::Names;
pub use new_access::{NewAccess, ReplacedAccess};
pub use new_name::NewName;

#[cfg(test)]
mod tests;
