//! The words of a call, from the process to a task or a printed text.

ghost use Rattle.std.specs.Prelude.{◌≡◌, IfErr, IfOk};
ghost use Rattle.clap.specs.Values.{kind_of};
ghost use Rattle.srt_command_line.specs.Statuses.{status_of, HasStatus};

use crate::commands::command;
use crate::tasks::{Given, Task, given_in};
use clap::Error;
use clap::error::ErrorKind;
use std::alloc::{AllocError, Global};
use std::rt::Env;
use std::{env, io};

/// What the words of a command line come to.
#[derive(Clone, Copy)]
pub enum CommandLine<'a> {
    /// A task.
    Task(Task<'a>),
    /// A text, which was printed: the one that was asked for, with this status 0, or what is wrong with the words, with
    /// this status 2.
    Reported(u8),
}

/// Why words came to nothing.
#[derive(Clone, Copy, Debug, PartialEq, Eq)]
pub enum WordsFault {
    /// Memory was refused.
    OutOfMemory,
    /// The text that was asked for can't be written.
    Output,
}

/// The error of a time of `--for` that is no duration, or of refused memory.
fn wrong_duration(alloc: Global) -> Result<Error, AllocError> {
    let mut command = command(alloc)?;
    command.error(
        ErrorKind::ValueValidation,
        "the time of --for is a number of seconds, or numbers with d, h, m and s in this order, from 1s to 365d, such as 90, 8h or 1h30m",
    )
}

/// The task of these words, or what stands against it.
fn task_of<'a>(alloc: Global, words: &'a [String]) -> Result<Task<'a>, Error> {
    let matches = command(alloc)?.try_get_matches_from(words)?;
    match given_in(&matches) {
        Some(Given::Task(task)) => Ok(task),
        Some(Given::WrongDuration) => Err(wrong_duration(alloc)?),
        None => Err(Error::from(AllocError)),
    }
}

/// Prints what is wrong with the words, or the text that they ask for, and returns the status: 2 or 0.
fn tell(rt: &(impl Print + Eprint), error: Error) -> Result<u8, WordsFault>
    ensures { IfOk result (λ status. status ≡ status_of (kind_of error)) }
{
    if error.kind() == ErrorKind::OutOfMemory {
        return Err(WordsFault::OutOfMemory);
    }
    let is_wrong = error.use_stderr();
    match error.print(rt) {
        // A text that was asked for is output. For wrong words the status suffices.
        Err(_) if !is_wrong => Err(WordsFault::Output),
        _ => Ok(if is_wrong { 2 } else { 0 }),
    }
}

/// The task of these words, of which the first is the program's name. A text that they ask for, such as help, goes to
/// standard output; what is wrong with them to standard error. Allocates while it parses.
pub fn read_words<'a, R>(rt: &R, words: &'a [String]) -> Result<CommandLine<'a>, WordsFault>
where
    R: Print + Eprint + AllocGlobal,
    ensures { IfOk result HasStatus }
{
    match task_of(rt.alloc(), words) {
        Ok(task) => Ok(CommandLine::Task(task)),
        Err(error) => match tell(rt, error) {
            Ok(status) => Ok(CommandLine::Reported(status)),
            Err(fault) => Err(fault),
        },
    }
}

/// The words of the process. `None` if one of them isn't UTF-8, which standard error then says: the status is that of
/// wrong words, 2. Allocates them; the only fault is that memory is refused.
pub fn words_given(
    rt: &(impl Env + Eprint + AllocGlobal),
) -> Result<Option<Vec<String>>, WordsFault>
    ensures { IfErr result (λ fault. fault ≡ WordsFault.OutOfMemory) }
{
    match env::args(rt) {
        Ok(words) => match words.collect(rt.alloc()) {
            Ok(words) => Ok(Some(words)),
            Err(_) => Err(WordsFault::OutOfMemory),
        },
        Err(error) if error.kind() == io::ErrorKind::InvalidData => {
            let _ = rt.eprintln("error: a word of the command line is not UTF-8");
            Ok(None)
        }
        Err(_) => Err(WordsFault::OutOfMemory),
    }
}
