//! How the threads of a run wake each other, how long they sleep, and what they are called.
//!
//! All of it is hints, and no contract of another crate depends on them: a lost one delays work and never loses an item.
//! Clauses state what names and times are, what follows of a word of marks that was read, and which routes an answer may
//! name. The crate knows neither routes nor queues: a route is an index.
//!
//! Types: `Wakeups` is what the threads of a run share, the marks of the routes and the notifiers at which threads sleep; an
//! `AtomicBitSet` has a mark for each route; a `ThreadName` names a thread by `name_thread`. `pacing` has the times and the
//! counts by which threads sleep and share work. `RouteMarks`, `RunState`, `WorkerPauses`, `SharedMarks`, `SharedWord` and
//! `SharedQueue` are these values to code that has to show that it makes its calls.
//!
//! Files: `wakeups.rt`, over `bit_set.rt` and `notifier.rt`; `pacing.rt`; `naming.rt`; the traits `route_marks.rt`,
//! `run_state.rt`, `words.rt` and `queue.rt`.
#![tactic(auto)]

mod bit_set;
mod naming;
mod notifier;
pub mod pacing;
mod queue;
mod route_marks;
mod run_state;
mod wakeups;
mod words;

pub use bit_set::AtomicBitSet;
pub use naming::{ThreadName, name_thread};
pub use queue::SharedQueue;
pub use route_marks::RouteMarks;
pub use run_state::{RunState, WorkerPauses};
pub use wakeups::Wakeups;
pub use words::{SharedMarks, SharedWord};
