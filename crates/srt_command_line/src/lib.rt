//! The command line: the words of a call become a task, or a text for whoever called.
//!
//! It knows the commands, their arguments and their help, and does none of them: a program does the tasks that it can.
//! It opens no file.
//!
//! Types: `Task`, what is to be done, with its files by their paths and its [`Manner`]; `CommandLine`, what words come
//! to: a task, or a text that was printed and the status behind it; `WordsFault`, why neither came.
//!
//! Calls: `words_given` takes the words of the process, and `read_words` makes a task of them. `VERSION` is what
//! `--version` prints.
//!
//! Files: `commands.rt` has the commands with their help, `tasks.rt` finds the task in what was parsed, `durations.rt`
//! reads a duration such as `1h30m`, `words.rt` does both and prints. docs/OPERATING.md has the commands for people.
#![tactic(auto)]

mod commands;
mod durations;
mod tasks;
mod words;

pub use commands::VERSION;
pub use tasks::{Manner, Task};
pub use words::{CommandLine, WordsFault, read_words, words_given};

#[cfg(test)]
mod duration_tests;
