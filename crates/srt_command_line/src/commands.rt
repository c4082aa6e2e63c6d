//! The program's commands with their arguments and help.

ghost use Rattle.std.specs.Prelude.{◌≡◌, IfOk, codes, [], ◌∷◌};
ghost use Rattle.srt_command_line.specs.Commands.{path_rule, option_rule, flag_rule, rounds_rule, log_rule, HasForms, IsProgram};
ghost use Rattle.srt_command_line.specs.Commands.{check_shape, replay_shape, explain_shape, serve_shape, program_app};
ghost use Rattle.srt_command_line.specs.inside.Building.{HasRule, IsLocal, IsApp, leaf_app, IsRun, AddsShapes, AddsCallers};

use clap::builder::ValueParser;
use clap::{Arg, ArgAction, Command};
use srt_types::product_limits::MAX_SERVE_ROUNDS;
use std::alloc::{AllocError, Global};

/// The version, as CHANGELOG.md has it.
pub const VERSION: &str = "0.7";

fn path<'a>(alloc: Global, name: &'a str, help: &'a str) -> Arg<'a>
    ensures { HasRule (path_rule name.entry.now) result }
{
    Arg::new(alloc, name)
        .required(true)
        .action(ArgAction::Set)
        .help(help)
}

fn config<'a>(alloc: Global) -> Arg<'a>
    ensures { HasRule (path_rule (codes "CONFIG")) result }
{
    path(
        alloc,
        "CONFIG",
        "The configuration, a TOML file (examples/gateway.toml is one to start from)",
    )
}

fn tape<'a>(alloc: Global) -> Arg<'a>
    ensures { HasRule (path_rule (codes "TAPE")) result }
{
    path(
        alloc,
        "TAPE",
        "A text of events, one a line: datagrams that arrive, ticks of the clock, turns of a route, sends",
    )
}

fn output<'a>(alloc: Global) -> Arg<'a>
    ensures { HasRule (option_rule (codes "output")) result }
{
    Arg::new(alloc, "output")
        .long("output")
        .value_name("FILE")
        .action(ArgAction::Set)
        .help(
            "What replay printed for the tape: each of its lines follows the tape's line of the same number",
        )
}

fn rounds<'a>(alloc: Global) -> Arg<'a>
    ensures { HasRule rounds_rule result }
{
    Arg::new(alloc, "rounds")
        .long("rounds")
        .value_name("N")
        .required(true)
        .action(ArgAction::Set)
        .value_parser(ValueParser::Unsigned(0, MAX_SERVE_ROUNDS))
        .help(
            "How many times the socket is polled before the gateway ends, at most 1000000000; an idle round takes up to 10 milliseconds",
        )
}

fn explain<'a>(alloc: Global) -> Arg<'a>
    ensures { HasRule (flag_rule (codes "explain")) result }
{
    Arg::new(alloc, "explain")
        .long("explain")
        .action(ArgAction::SetTrue)
        .help("Prints on standard error where each fault is and how to fix it, or warnings")
}

fn addresses<'a>(alloc: Global) -> Arg<'a>
    ensures { HasRule (flag_rule (codes "addresses")) result }
{
    Arg::new(alloc, "addresses")
        .long("addresses")
        .action(ArgAction::SetTrue)
        .help(
            "Also binds the addresses of bind and status once, as run does; those of a gateway that runs are taken",
        )
}

fn duration<'a>(alloc: Global) -> Arg<'a>
    ensures { HasRule (option_rule (codes "for")) result }
{
    Arg::new(alloc, "for")
        .long("for")
        .value_name("DURATION")
        .action(ArgAction::Set)
        .help(
            "Stops by itself after this time: a number of seconds, or numbers with d, h, m and s, such as 90, 8h or 1h30m; from 1s to 365d",
        )
}

fn no_time<'a>(alloc: Global) -> Arg<'a>
    ensures { HasRule (flag_rule (codes "no-time")) result }
{
    Arg::new(alloc, "no-time")
        .long("no-time")
        .action(ArgAction::SetTrue)
        .help(
            "Leaves out the time at the beginning of each line of the log, for a journal that has its own",
        )
}

fn log<'a>(alloc: Global) -> Arg<'a>
    ensures form { HasForms result.value_parser }
    ensures rule { HasRule (log_rule result.value_parser) result }
{
    Arg::new(alloc, "log")
        .long("log")
        .value_name("FORM")
        .action(ArgAction::Set)
        .value_parser(ValueParser::Names(&["text", "json"]))
        .help(
            "The form of the log: a line of text for each event, as without this option, or a JSON object for each",
        )
}

/// The command `check`.
fn check<'a>(alloc: Global) -> Result<Command<'a>, AllocError>
    ensures { IfOk result (IsApp (leaf_app check_shape)) }
{
    Command::new(alloc, "check")
        .about("Prints how many routes a configuration has, or its first fault")
        .arg(config(alloc))?
        .arg(explain(alloc))?
        .arg(addresses(alloc))
}

/// The command `replay`.
fn replay<'a>(alloc: Global) -> Result<Command<'a>, AllocError>
    ensures { IfOk result (IsApp (leaf_app replay_shape)) }
{
    Command::new(alloc, "replay")
        .about(
            "Runs the gateway's core over a tape, a text of events, and prints the result of each event",
        )
        .after_help("docs/PROTOCOL.md has the form of a tape; srtgw explain prints one in words.")
        .arg(config(alloc))?
        .arg(tape(alloc))
}

/// The command `explain`.
fn explain_tape<'a>(alloc: Global) -> Result<Command<'a>, AllocError>
    ensures { IfOk result (IsApp (leaf_app explain_shape)) }
{
    Command::new(alloc, "explain")
        .about(
            "Prints each line of a tape in words, up to the first that is no event: time, address or route, packet, fields",
        )
        .after_help(
            "Example: srtgw explain events.tape --output events.out, where events.out is what srtgw replay printed for the tape. The status is 1 if a line is no event. docs/PROTOCOL.md has the form of a tape.",
        )
        .arg(tape(alloc))?
        .arg(output(alloc))
}

/// The command `serve`.
fn serve<'a>(alloc: Global) -> Result<Command<'a>, AllocError>
    ensures { IfOk result (IsApp (leaf_app serve_shape)) }
{
    Command::new(alloc, "serve")
        .about(
            "Serves SRT callers at the configuration's UDP address, and prints a report at the end",
        )
        .after_help(
            "docs/operating/configuration.md explains rounds, docs/operating/log.md the report.",
        )
        .arg(config(alloc))?
        .arg(rounds(alloc))
}

/// The command `run`.
fn run<'a>(alloc: Global) -> Result<Command<'a>, AllocError>
    ensures { IfOk result IsRun }
{
    Command::new(alloc, "run")
        .about(
            "Serves SRT callers until it is stopped, logs on standard error, and prints a report at the end",
        )
        .after_help(
            "SIGINT and SIGTERM stop it if it was started by bin/srtgw, which blocks them: then every session gets a SHUTDOWN. docs/operating/log.md has each line of the log.",
        )
        .arg(config(alloc))?
        .arg(duration(alloc))?
        .arg(no_time(alloc))?
        .arg(log(alloc))
}

/// The command that reads a configuration alone.
fn with_check<'a>(alloc: Global, all: Command<'a>) -> Result<Command<'a>, AllocError>
    requires { IsLocal all }
    ensures { IfOk result (AddsShapes (check_shape ∷ []) all.entry) }
{
    all.subcommand(check(alloc)?)
}

/// The commands that read tapes.
fn with_tapes<'a>(alloc: Global, all: Command<'a>) -> Result<Command<'a>, AllocError>
    requires { IsLocal all }
    ensures { IfOk result (AddsShapes (replay_shape ∷ explain_shape ∷ []) all.entry) }
{
    all.subcommand(replay(alloc)?)?
        .subcommand(explain_tape(alloc)?)
}

/// The commands that serve callers.
fn with_callers<'a>(alloc: Global, all: Command<'a>) -> Result<Command<'a>, AllocError>
    requires { IsLocal all }
    ensures { IfOk result (AddsCallers all.entry) }
{
    all.subcommand(serve(alloc)?)?.subcommand(run(alloc)?)
}

/// The program without its commands. Its name in usage lines is set, since it would be that of the file which was called.
fn program<'a>(alloc: Global) -> Result<Command<'a>, AllocError>
    ensures { IfOk result (IsApp (program_app [])) }
{
    Command::new(alloc, "srtgw")
        .about(
            "A gateway for SRT live streams: what a publisher sends on a route goes to each of the route's subscribers",
        )
        .version(VERSION)
        .subcommand_required(true)
        .bin_name("srtgw")
}

/// The program's commands with their arguments and help. It allocates; the only error is that it is refused.
pub fn command<'a>(alloc: Global) -> Result<Command<'a>, AllocError>
    ensures { IfOk result IsProgram }
{
    let all = with_check(alloc, program(alloc)?)?;
    let all = with_tapes(alloc, all)?;
    with_callers(alloc, all)
}
