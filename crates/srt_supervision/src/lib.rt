//! The interface between a run of the gateway and its watcher.
//!
//! The crate has only types and traits, so that a watcher needs no thread, socket or queue: it is proved in parallel with
//! `srt_mailbox`, `srt_poller` and `srt_serve`, which make a run.
//!
//! Types: a `Watch` gets the run's `RunStatus` (with the poller's counters, a `Report`), the routes (`srt_route::Route`)
//! and each `Refusal`. It returns an `Order` for the poller, and opens and closes routes through the `ChangeRoutes` that
//! it is handed (`RouteChanges`, `ChangeFault`). `NoWatcher` is the watcher of a run that isn't watched.
//!
//! Of each answer of a watcher something may be known (`Answers`): a run closes all, ends early and closes a route only by
//! such an answer. Otherwise no contract depends on a watcher: whatever it returns, the contracts of a run hold
//! (`srt_serve`). `srt_poller` counts in a `Report` and obeys an `Order`; both crates re-export what their callers name.
#![tactic(auto)]

mod changes;
mod order;
mod refusal;
mod report;
mod watch;

pub use changes::{ChangeFault, ChangeRoutes, RouteChanges};
pub use order::Order;
pub use refusal::Refusal;
pub use report::Report;
pub use watch::{Answers, NoWatcher, RunStatus, Watch};
