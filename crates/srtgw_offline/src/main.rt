//! `srtgw_offline`: the gateway's program without sockets. It has the command line of `srtgw`, does `check`, `replay`
//! and `explain`, and reports of the other commands that `srtgw` does them.
//!
//! It uses few crates, so that it is proved and built in a third of the time of the whole program.
//!
//! Calls: `main` takes the words, and `obey_task` does their task by `srt_offline`. docs/OPERATING.md has the commands,
//! docs/PROTOCOL.md each line of output and each status.
#![tactic(auto)]

ghost use Rattle.std.specs.Prelude.{◌≡◌};
ghost use Rattle.std.specs.Process.{exit_status};

use srt_command_line::{CommandLine, Task, WordsFault, read_words, words_given};
use srt_offline::{OfflineFault, check_file, explain_file, replay_file, status_of};
use std::process::ExitCode;
use std::rt::{Env, Files};

/// Says on standard error that this program doesn't do this command, and returns the status 1.
fn leave(rt: &impl Eprint, command: &str) -> ExitCode
    ensures { exit_status result ≡ 1 }
{
    let _ = eprintln!(rt;
        "srtgw: {command}: this is srtgw_offline, which has no sockets; the whole program, srtgw, does it"
    );
    ExitCode::FAILURE
}

/// Does a task, and returns the exit status.
fn obey_task<R>(rt: &R, task: Task<'_>) -> ExitCode
where
    R: Print + Eprint + Files + AllocGlobal,
{
    match task {
        Task::Check {
            tries_addresses: true,
            ..
        } => leave(rt, "check --addresses"),
        Task::Check {
            config,
            explains,
            ..
        } => status_of(rt, check_file(rt, config, explains)),
        Task::Replay { config, tape } => status_of(rt, replay_file(rt, config, tape)),
        Task::Explain { tape, output } => status_of(rt, explain_file(rt, tape, output)),
        Task::Serve { .. } => leave(rt, "serve"),
        Task::Run { .. } => leave(rt, "run"),
    }
}

/// Does the task of these words. A text for whoever called is printed, and its status returned.
fn obey<R>(rt: &R, words: &[String]) -> Result<ExitCode, WordsFault>
where
    R: Print + Eprint + Files + AllocGlobal,
{
    match read_words(rt, words)? {
        CommandLine::Task(task) => Ok(obey_task(rt, task)),
        CommandLine::Reported(status) => Ok(ExitCode::from(status)),
    }
}

/// Does the task of the command line. Words that aren't UTF-8 give status 2, as a wrong command line does.
fn obey_words<R>(rt: &R) -> Result<ExitCode, WordsFault>
where
    R: Env + Print + Eprint + Files + AllocGlobal,
{
    match words_given(rt)? {
        Some(words) => obey(rt, words.as_slice()),
        None => Ok(ExitCode::from(2)),
    }
}

fn main(rt: HostRuntime) -> ExitCode {
    match obey_words(&rt) {
        Ok(status) => status,
        Err(fault) => status_of(&rt, Err(OfflineFault::of_words(fault))),
    }
}
