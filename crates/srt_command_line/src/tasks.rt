//! The tasks, and how one is found in a command line that was parsed.

ghost use Rattle.std.specs.Prelude.{◌≡◌, ◌↔◌, IfSome, codes, option_map, Some, true};
ghost use Rattle.clap.specs.Matches.{found_of, first_value, subcommand_name_of};
ghost use Rattle.srt_command_line.specs.inside.Tasks.{lasts_of, command_of};

use crate::durations::duration_in;
use clap::ArgMatches;

/// How a gateway runs.
#[derive(Clone, Copy, Debug)]
pub struct Manner {
    /// How long it serves callers, in microseconds; `None` until it is told to stop.
    pub lasts: Option<u64>,
    /// Whether each line of the log has the time: text begins with it, and an object has it as a member.
    pub is_timed: bool,
    /// Whether each line of the log is a JSON object.
    pub is_json: bool,
}

/// What the command line asks for. Files are named by their paths.
#[derive(Clone, Copy)]
pub enum Task<'a> {
    /// Check a configuration.
    Check {
        /// The configuration's file.
        config: &'a str,
        /// Whether the outcome is explained on standard error.
        explains: bool,
        /// Whether its addresses are bound once.
        tries_addresses: bool,
    },
    /// Run a tape's events, and print their results.
    Replay {
        /// The configuration's file.
        config: &'a str,
        /// The tape's file.
        tape: &'a str,
    },
    /// Print a tape in words.
    Explain {
        /// The tape's file.
        tape: &'a str,
        /// The file of what `replay` printed for it, if it is given.
        output: Option<&'a str>,
    },
    /// Serve the routes of a configuration.
    Serve {
        /// The configuration's file.
        config: &'a str,
        /// The number of rounds: how often the socket is polled, at most 1,000,000,000.
        rounds: u32,
    },
    /// Serve the routes of a configuration until the gateway is told to stop, with a log.
    Run {
        /// The configuration's file.
        config: &'a str,
        /// How it runs.
        manner: Manner,
    },
}

/// What the words of a command line are.
#[derive(Clone, Copy)]
pub(crate) enum Given<'a> {
    /// A task.
    Task(Task<'a>),
    /// The time of `--for` is no duration.
    WrongDuration,
}

/// Whether the log has JSON objects by these words.
fn is_json_in(matches: &ArgMatches<'_>) -> bool
    ensures { (result ≡ true) ↔ (first_value (found_of matches.now) (codes "log") ≡ Some (codes "json")) }
{
    match matches.get_str("log") {
        Some(form) => form == "json",
        None => false,
    }
}

/// How a gateway runs by these words; None if the time of `--for` is no duration.
fn manner_of(matches: &ArgMatches<'_>) -> Option<Manner>
    ensures lasts { option_map (λ manner. manner.lasts) result ≡ lasts_of (first_value (found_of matches.now) (codes "for")) }
    ensures form { IfSome result (λ manner. (manner.is_json ≡ true) ↔ (first_value (found_of matches.now) (codes "log") ≡ Some (codes "json"))) }
{
    let is_timed = !matches.get_flag("no-time");
    let is_json = is_json_in(matches);
    let lasts = match matches.get_str("for") {
        Some(text) => Some(duration_in(text.as_bytes())?),
        None => None,
    };
    Some(Manner {
        lasts,
        is_timed,
        is_json,
    })
}

/// The task of `run`; None if a word is missing.
fn run_in<'a>(matches: &ArgMatches<'a>) -> Option<Given<'a>>
    ensures { IfSome result (λ given. command_of given ≡ codes "run") }
{
    let config = matches.get_str("CONFIG")?;
    match manner_of(matches) {
        Some(manner) => Some(Given::Task(Task::Run { config, manner })),
        None => Some(Given::WrongDuration),
    }
}

/// The task of `explain`; None if a word is missing.
fn explain_in<'a>(matches: &ArgMatches<'a>) -> Option<Task<'a>>
    ensures { IfSome result (λ task. command_of (Given.Task task) ≡ codes "explain") }
{
    let tape = matches.get_str("TAPE")?;
    Some(Task::Explain {
        tape,
        output: matches.get_str("output"),
    })
}

/// The task of a command with a configuration, other than `run`; None if a word is missing, or for another name.
fn task_in<'a>(name: &str, matches: &ArgMatches<'a>) -> Option<Task<'a>>
    ensures { IfSome result (λ task. command_of (Given.Task task) ≡ name.now) }
{
    let config = matches.get_str("CONFIG")?;
    match name {
        "check" => Some(Task::Check {
            config,
            explains: matches.get_flag("explain"),
            tries_addresses: matches.get_flag("addresses"),
        }),
        "serve" => Some(Task::Serve {
            config,
            rounds: matches.get_one("rounds")?,
        }),
        "replay" => Some(Task::Replay {
            config,
            tape: matches.get_str("TAPE")?,
        }),
        _ => None,
    }
}

/// The task of a command other than `run`; None if a word is missing, or for another name.
fn task_named<'a>(name: &str, matches: &ArgMatches<'a>) -> Option<Task<'a>>
    ensures { IfSome result (λ task. command_of (Given.Task task) ≡ name.now) }
{
    if name == "explain" {
        return explain_in(matches);
    }
    task_in(name, matches)
}

/// What a command line asks for that was parsed: a task of its own command. None if a word is missing, which `command`
/// doesn't accept.
pub(crate) fn given_in<'a>(matches: &ArgMatches<'a>) -> Option<Given<'a>>
    ensures { IfSome result (λ given. subcommand_name_of matches.now ≡ Some (command_of given)) }
{
    let (name, inner) = matches.subcommand()?;
    if name == "run" {
        return run_in(inner);
    }
    match task_named(name, inner) {
        Some(task) => Some(Given::Task(task)),
        None => None,
    }
}
