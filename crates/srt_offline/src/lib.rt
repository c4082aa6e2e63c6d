//! The commands that open no socket, `check`, `replay` and `explain`: they read files, print the results, and end with a
//! fault or without.
//!
//! What a configuration and a tape mean is decided by `srt_config` and `srt_replay`. The words for people are those of
//! `srt_explain` for a configuration, and of `srt_transcript` for a tape. Nothing is kept on disk.
//!
//! Types: `OfflineFault`, why a command ended early, whose text is the line that is printed for it.
//!
//! Calls: `check_file`, `replay_file` and `explain_file` are the commands, and `status_of` prints the line of a fault and gives the exit
//! status, by `write_end`, which does so for any fault that is a `PrintedFault`. `config_at`, `explained_at` and `checked_at` read a
//! configuration's file by `read_configuration` of `srt_config`, and `print_routes` prints what `check` does of it, by `write_routes`.
//!
//! Files: `faults.rt` has the faults and `ending.rt` their lines and status, `checking.rt` the command `check`, `replaying.rt` the
//! command `replay` and `explaining.rt` the command `explain`.
//! docs/PROTOCOL.md has each line of output and each status.
#![tactic(auto)]

mod checking;
mod ending;
mod explaining;
mod faults;
mod replaying;
#[cfg(test)]
mod tests;

pub use checking::{check_file, checked_at, config_at, explained_at, print_routes, write_routes};
pub use ending::{Ending, PrintedFault, write_end};
pub use explaining::explain_file;
pub use faults::{OfflineFault, status_of};
pub use replaying::replay_file;
