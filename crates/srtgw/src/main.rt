//! `srtgw`: the gateway's program. It takes the words of the command line, calls the crates that do the work, and prints
//! what they return.
//!
//! It has no rules of the protocol or of the configuration: these are in `srt_config` and below. Nothing is kept on
//! disk. A run ends with status 0 when its work is done, 1 with a fault, 2 with a wrong command line.
//!
//! Types: `Fault` (`faults.rt`), why a run ended early. What the command line asks for is `srt_command_line`'s `Task`.
//!
//! Calls: `main` takes the words, and `run` does their task: `check`, `replay` and `explain` are `srt_offline`'s,
//! but `check --addresses` (`checking.rt`), which binds sockets; `serve` (`serving.rt`) runs threads at the UDP socket (`binding.rt`)
//! until the rounds are over, `run` (`running.rt`) until it is told to stop, with a watcher over `srt_host`. `printing.rt` has the
//! lines of the report, and `clocks.rt` the routes' clock. `srtgw_offline` is the same program without sockets. docs/OPERATING.md
//! has the commands, docs/PROTOCOL.md each line of output and each status.
#![tactic(auto)]

ghost use Rattle.std.specs.Prelude.{◌≡◌, OnOk};
ghost use Rattle.std.specs.Io.KnownBytes.{Appends};
ghost use Rattle.std.specs.Process.{exit_status};
ghost use Rattle.srt_offline.specs.Ends.{status_after};
ghost use Rattle.srt_supervision.specs.declared.report.Report.{Report as TheReport};
ghost use Rattle.srtgw.specs.Reports.{report_line, HasReported};

mod binding;
mod checking;
mod clocks;
mod faults;
mod printing;
mod running;
mod serving;
#[cfg(test)]
mod tests;

use checking::{check_addresses, offline};
use faults::Fault;
use printing::write_report;
use running::run_gateway;
use serving::serve;
use srt_command_line::{CommandLine, Manner, Task, WordsFault, read_words, words_given};
use srt_config::Config;
use srt_host::HostClocks;
use srt_offline::{
    OfflineFault, check_file, config_at, explain_file, explained_at, replay_file, write_end,
};
use std::io::{self, Write};
use std::net::Net;
use std::process::ExitCode;
use std::rt::{Clock, Env, Files};
use std::sync::Wait;
use std::thread::Threads;

/// `srtgw run CONFIG`: serves callers until the gateway is told to stop, with a log on standard error, and writes the report.
fn run_file<R, W>(
    rt: &R,
    machine: &HostRuntime,
    out: &mut W,
    path: &str,
    manner: Manner,
) -> Result<(), Fault>
where
    R: Eprint + Files + AllocGlobal + Net + Clock + HostClocks + Threads + Wait + Sync,
    W: Write,
    ensures { OnOk result (HasReported (W.contents out.old) (W.contents out.new)) }
{
    match explained_at(rt, path) {
        Ok(explained) => run_gateway(rt, machine, out, path, &explained, manner),
        Err(fault) => Err(Fault::Offline(fault)),
    }
}

/// Serves the routes of a configuration for this number of rounds, and writes the report.
fn serve_config<R, W>(rt: &R, out: &mut W, config: &Config, rounds: u32) -> Result<(), Fault>
where
    R: AllocGlobal + Net + Clock + HostClocks + Threads + Wait + Sync,
    W: Write,
    ensures { OnOk result ((report : TheReport) × Appends (W.contents out.old) (W.contents out.new) (report_line report)) }
{
    let report = serve(rt, config, rounds)?;
    match write_report(out, &report) {
        Ok(()) => Ok(()),
        Err(_) => Err(Fault::Offline(OfflineFault::Output)),
    }
}

/// `srtgw serve CONFIG --rounds N`: serves callers for N rounds, and then writes the report.
fn serve_file<R, W>(rt: &R, out: &mut W, config: &str, rounds: u32) -> Result<(), Fault>
where
    R: Files + AllocGlobal + Net + Clock + HostClocks + Threads + Wait + Sync,
    W: Write,
    ensures { OnOk result ((report : TheReport) × Appends (W.contents out.old) (W.contents out.new) (report_line report)) }
{
    match config_at(rt, config) {
        Ok(config) => serve_config(rt, out, &config, rounds),
        Err(fault) => Err(Fault::Offline(fault)),
    }
}

/// `srtgw check CONFIG`, which binds the configuration's addresses once only if it `tries_addresses`.
fn check<R>(
    rt: &R,
    machine: &HostRuntime,
    path: &str,
    explains: bool,
    tries_addresses: bool,
) -> Result<(), Fault>
where
    R: Print + Eprint + Files + AllocGlobal + Net + Clock + HostClocks,
{
    if tries_addresses {
        return match check_addresses(rt, machine, &mut io::writer(rt), path, explains) {
            Ok(_) => Ok(()),
            Err(fault) => Err(fault),
        };
    }
    offline(check_file(rt, path, explains))
}

/// Does a task.
fn run<R>(rt: &R, machine: &HostRuntime, task: Task<'_>) -> Result<(), Fault>
where
    R: Print + Eprint + Files + AllocGlobal + Net + Clock + HostClocks + Threads + Wait + Sync,
{
    match task {
        Task::Check {
            config,
            explains,
            tries_addresses,
        } => check(rt, machine, config, explains, tries_addresses),
        Task::Replay { config, tape } => offline(replay_file(rt, config, tape)),
        Task::Explain { tape, output } => offline(explain_file(rt, tape, output)),
        Task::Serve { config, rounds } => { serve_file(rt, &mut io::writer(rt), config, rounds) }
        Task::Run { config, manner } => {
            run_file(rt, machine, &mut io::writer(rt), config, manner)
        }
    }
}

/// The exit status of a run: 0, or 1 after a fault, whose line is printed on standard output.
fn status_of(rt: &impl Print, ended: Result<(), Fault>) -> ExitCode
    ensures { exit_status result ≡ status_after ended }
{
    let ending = write_end(&mut io::writer(rt), ended);
    ending.status
}

/// Does the task of these words. A text for whoever called is printed, and its status returned.
fn obey<R>(rt: &R, machine: &HostRuntime, words: &[String]) -> Result<ExitCode, WordsFault>
where
    R: Print + Eprint + Files + AllocGlobal + Net + Clock + HostClocks + Threads + Wait + Sync,
{
    match read_words(rt, words)? {
        CommandLine::Task(task) => Ok(status_of(rt, run(rt, machine, task))),
        CommandLine::Reported(status) => Ok(ExitCode::from(status)),
    }
}

/// Does the task of the command line. Words that aren't UTF-8 give status 2, as a wrong command line does.
fn obey_words<R>(rt: &R, machine: &HostRuntime) -> Result<ExitCode, WordsFault>
where
    R: Env
        + Print
        + Eprint
        + Files
        + AllocGlobal
        + Net
        + Clock
        + HostClocks
        + Threads
        + Wait
        + Sync,
{
    match words_given(rt)? {
        Some(words) => obey(rt, machine, words.as_slice()),
        None => Ok(ExitCode::from(2)),
    }
}

fn main(rt: HostRuntime) -> ExitCode {
    match obey_words(&rt, &rt) {
        Ok(status) => status,
        Err(fault) => status_of(&rt, Err(Fault::Offline(OfflineFault::of_words(fault)))),
    }
}
