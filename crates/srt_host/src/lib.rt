//! The machine that a gateway runs on, as its watcher (`srt_watch`) uses it: clock, memory, signals, the configuration's
//! file, standard error, and the sockets of the program.
//!
//! It makes no decision: `srt_watch` chooses what is logged and shown, `srt_status` parses requests of the page, and
//! `srt_procfs` the kernel's texts.
//!
//! Types: `Since`, the routes' clock; `Host`, `HostFile` and `Errors`, the machine, the configuration's file and standard
//! error, which waits for nobody; `ServedSocket`, what a run knows of its socket; `StatusPage`, the page's sockets; `HostWatcher`,
//! a watcher over all of these, and `WatcherFault`, why there is none.
//!
//! Calls: `open_watcher` for a run of a gateway; `open_page` binds the page's address, and `bind_hint` says what may help if an
//! address can't be bound; `time_now` returns the system's time, `socket_address` the socket address that a configuration names, and
//! `served_at` the one that a socket got.
//!
//! Files: `clock.rt`, `times.rt`, `address.rt`, `host.rt`, `errors.rt` and `status_page.rt` have these, `held_text.rt` the
//! log's text that waits, `hints.rt` the hint, `socket.rt` the socket, and `watching.rt` joins all.
#![tactic(auto)]

mod address;
mod clock;
mod errors;
mod held_text;
mod hints;
mod host;
mod socket;
mod status_page;
mod times;
mod watching;

pub use address::{served_at, socket_address};
pub use clock::Since;
pub use errors::Errors;
pub use hints::bind_hint;
pub use host::{Host, HostFile};
pub use socket::ServedSocket;
pub use status_page::StatusPage;
pub use times::{HostClocks, time_now};
pub use watching::{HostWatcher, WatcherFault, open_page, open_watcher};
