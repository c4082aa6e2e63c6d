//! The watcher of a gateway: it logs what happens, shows the status page, requests the changes of a changed configuration, and
//! stops the gateway.
//!
//! A watcher gets from `srt_serve` each route under its claim, twice a second, and each refused conclusion. Once a second it
//! polls the configuration's file, and requests its changes of the run. No route waits for it, and nothing here changes what a
//! route does. It opens no file and reads no clock: its `Machine` and its `ConfigFile` do.
//!
//! Types: `Watcher` implements `srt_supervision::Watch`. `Machine` and `ConfigFile` are what it needs of the machine and of the
//! configuration's file; `Outlets` are where it writes its log and shows the status. `StatusServer` is where it shows the status,
//! and `NoStatusServer` shows none. `Start` is the content of its first line, and when the gateway stops by itself.
//!
//! Files: `watcher.rt` has the calls of `Watch`, and passes each to the part that it is about.
//! - When: `course.rt` has the times of snapshots, and the stop; `steering.rt` ties the stop to the machine's signal and clock.
//! - Log: `log.rt` writes lines to `output.rt`, at most 50 a second. Their events are of the start (`first_lines.rt`), of the socket's faults
//!   and lost datagrams (`losses.rt`), of refused callers (`refusals.rt`), of sessions (`route_lines.rt`) and of a changed
//!   configuration (`change_log.rt`).
//! - Page: `page.rt` shows the gateway (`overview.rt`) and its routes (`watched_routes.rt`). `showing.rt` takes the snapshots of
//!   a route, `census.rt` counts refusals.
//! - Reload: `following.rt` requests the change of a changed configuration, and puts it in force. `watched_file.rt` has when the
//!   file is read, and what is new in it. `in_force.rt` has the configuration in force and compares it with the file's.
//!   `reasons.rt` has the words of what is wrong with that.
//!   `prepared_change.rt` is a change with all memory that it needs: which routes close and open, and how many; `indexes.rt` has
//!   which indexes the others get.
//!
//! `machine.rt`, `page_interface.rt` and `config_file.rt` have the traits. The words of each line are in `srt_log`, those of the
//! page in `srt_status`, and the changes of a configuration in `srt_config`. `stopping.rt` has the steps of a stop.
#![tactic(auto)]

mod census;
mod change_log;
mod config_file;
mod course;
mod first_lines;
mod following;
mod in_force;
mod indexes;
pub mod laws;
mod log;
mod losses;
mod machine;
mod memory;
mod output;
mod overview;
mod page;
mod page_interface;
mod prepared_change;
mod reasons;
mod refusals;
mod rests;
mod route_lines;
mod showing;
mod steering;
mod stopping;
mod watched_file;
mod watched_routes;
mod watcher;
mod writer_calls;

pub use config_file::{ConfigFile, FileStamp, MAX_REASON};
pub use first_lines::Start;
pub use log::LogForm;
pub use machine::Machine;
pub use page_interface::{NoStatusServer, StatusServer};
pub use watcher::{Outlets, Watcher};

#[cfg(test)]
mod stopping_tests;
