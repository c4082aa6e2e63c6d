//! The running gateway: it starts the threads, stops them, and settles the routes.
//!
//! One thread polls, one ticks, and workers serve the routes; the polling thread serves some of them too. One more
//! watches, in a run that is watched. The crate reads no configuration (`srt_config` does), binds no socket and reads
//! no clock (the program passes a source, a wire and a ticker), and takes no signals.
//!
//! Types: `Gates` has a gate for each thread that serves routes; a `Ticker` returns the times at which routes are ticked; a
//! `Watch` gets the routes and each `Refusal`, and ends the run. `Ran` and `Watched` are the outcome of a run, a report of
//! the poller and the final counters of each route; `RunFault` is the reason why there is none.
//!
//! Calls: `run` or `run_until`, once. `run` returns once the given number of rounds is complete and all its threads have
//! ended, `run_until` also if its watcher orders the end. Each route has a `srt_types::Schedule`: the rounds in which callers begin to
//! find it and in which it closes.
//!
//! Files, in the order of a run: `running.rt` has the whole of it, and hides routes that open later; `opening.rt` opens
//! all routes, in places which their owners read by `arrivals.rt`; `serving.rt` starts and joins the threads, which are
//! `ticking.rt`, `working.rt`, `watching.rt` and the poller (`srt_poller::pump_under`, or `pump_changing` in a run that is
//! watched), with the routes that the polling thread serves itself in `inline_serving.rt`; `settling.rt` settles the
//! routes. `turns.rt` has the turn that a thread makes again and again until the run is over. The polling thread and the
//! watching one share `watcher_channel.rt`, with `refusal_queue.rt` and `refusal_reports.rt`. What a thread finds in a value
//! that others change, and what it does to it, is in `evidence.rt`. How threads wake each other, how long they sleep and
//! their names are in `srt_wakeups`; what a watcher gets and returns, in `srt_supervision`.
//! `specs/Ran.antt` defines what a run did, and `laws.rt` what follows of two runs: no opening or closing of one route
//! changes what is sorted to another one, or sent for it.
#![tactic(auto)]

mod answers;
mod arrivals;
mod counters;
mod evidence;
mod hosting;
mod inline_serving;
mod known;
pub mod laws;
mod opening;
mod refusal_queue;
mod refusal_reports;
mod route_sets;
mod running;
mod serving;
mod settling;
mod shared_report;
mod ticking;
mod turns;
mod watcher_channel;
mod watching;
mod working;

pub use running::{Crew, Gates, Ran, RunFault, RunPlan, Watched, run, run_until};
pub use srt_supervision::{
    Answers, ChangeFault, ChangeRoutes, Refusal, RouteChanges, RunStatus, Watch,
};
pub use ticking::Ticker;

#[cfg(test)]
mod tests;
