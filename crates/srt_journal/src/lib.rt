//! Notes of calls, for contracts alone: nothing of them is stored.
//!
//! A [`Journal`] has the calls of a device or of the system so far. It knows nothing of SRT, and nothing of the calls: what
//! a note means is defined by who keeps the journal (`srt_poller` for sockets and devices in memory, `srt_procfs` for the
//! kernel's files, `srt_host` for the clock and the status page). Who keeps it in a private field, and notes only where
//! the call is made, can prove of its calls what is proved of the notes.
#![tactic(auto)]

mod journal;

pub use journal::Journal;
