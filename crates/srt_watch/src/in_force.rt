//! The configuration in force, and what another one would change.

ghost use Rattle.std.specs.Prelude.{◌≡◌, false, length, IfOk, IfErr};
ghost use Rattle.srt_config.specs.Config.{settings_of};
ghost use Rattle.srt_config.specs.Changes.{requested, requested_by, any_fixed};
ghost use Rattle.srt_watch.specs.Configs.{IsConfigOf};
ghost use Rattle.srt_watch.specs.Following.{IsWrong, IsNotTaken};
ghost use Rattle.srt_watch.specs.Requests.{config_of, first_indexes};

use crate::config_file::MAX_REASON;
use crate::memory::{WantOfMemory, or_want_of_memory};
use crate::reasons::{Reason, reason_of};
use srt_config::{Changes, Config, FixedKeys, changes_between, read_config};
use srt_explain::{Faults, explain};
use std::alloc::{AllocError, Global};
use std::fmt::InlineText;
use std::str;

/// A valid configuration that differs from the one in force at no fixed key.
#[derive(Drop)]
pub(crate) struct Wanted {
    pub config: Config,
    /// What differs from the one in force.
    pub changes: Changes,
}

/// Why the content of the configuration's file isn't taken.
#[derive(Drop)]
pub(crate) enum NotTaken {
    /// It can't be read, for this reason.
    Unread(InlineText<MAX_REASON>),
    /// It has these faults.
    Wrong(Reason<Faults>),
    /// There is no memory for the list of its changes.
    NoMemory(WantOfMemory),
    /// Keys differ that can't change.
    KeysDiffer(FixedKeys),
}

/// The configuration in force.
#[derive(Drop)]
pub(crate) struct InForce<'a> {
    // the one with which the gateway was started
    first: &'a Config,
    // the indexes of the routes of the one in force, in its order
    indexes: Vec<usize>,
    // the one that was taken last, if one was
    later: Option<Config>,
}

impl<'a> InForce<'a> {
    /// Returns the one of a gateway that begins with the routes of this configuration. They have the indexes from 0 on.
    /// Allocates a list of them; the only error is out of memory.
    #[tactic(auto, using(crate::proofs::Appended::first_none, crate::proofs::Appended::first_step))]
    pub(crate) fn new(alloc: Global, config: &'a Config) -> Result<InForce<'a>, AllocError>
        ensures config { IfOk result (λ f. config_of f ≡ config.now) }
        ensures indexes { IfOk result (λ f. f.indexes.items ≡ first_indexes (length config.now.entries.items)) }
    {
        let routes = config.entries.len();
        let mut indexes = Vec::with_capacity(alloc, routes)?;
        for index in 0..routes {
            indexes.push(index)?;
        }
        Ok(InForce {
            first: config,
            indexes,
            later: None,
        })
    }

    /// Returns the configuration.
    pub(crate) fn config(&self) -> &Config
        ensures { result.now ≡ config_of self.now }
    {
        match &self.later {
            Some(config) => config,
            None => self.first,
        }
    }

    /// Returns the index of each of its routes, in its order.
    pub(crate) fn indexes(&self) -> &[usize]
        ensures { result.now ≡ self.now.indexes.items }
    {
        self.indexes.as_slice()
    }

    /// Puts another configuration in force, whose routes have these indexes.
    pub(crate) fn put(&mut self, config: Config, indexes: Vec<usize>)
        ensures config { config_of self.new ≡ config }
        ensures indexes { self.new.indexes ≡ indexes }
    {
        self.indexes = indexes;
        self.later = Some(config);
    }

    /// Reads the configuration of this content, and compares it with the one in force. An error if it has a fault, or if
    /// keys differ that can't change. Allocates the configuration and the list of its changes.
    pub(crate) fn wanted(&self, alloc: Global, content: &[u8]) -> Result<Wanted, NotTaken>
        ensures changes { IfOk result (λ w. requested_by w.changes ≡ requested (settings_of (config_of self.now)) (settings_of w.config)) }
        ensures fixed { IfOk result (λ w. any_fixed w.changes.fixed ≡ false) }
        ensures config { IfOk result (λ w. IsConfigOf content.now w.config) }
        ensures not_taken { IfErr result (IsNotTaken self.now content.now) }
    {
        let config = config_of_text(alloc, content)?;
        match changes_to(alloc, self.config(), &config) {
            Ok(changes) if changes.fixed.any() => Err(NotTaken::KeysDiffer(changes.fixed)),
            Ok(changes) => Ok(Wanted { config, changes }),
            Err(want) => Err(NotTaken::NoMemory(want)),
        }
    }
}

// Returns what a configuration changes of the one before; evidence, if memory for that was refused. Allocates the list of changes.
#[tactic(auto, using(crate::proofs::Evidence::same_made))]
fn changes_to(alloc: Global, before: &Config, after: &Config) -> Result<Changes, WantOfMemory>
    ensures { IfOk result (λ changes. requested_by changes ≡ requested (settings_of before.now) (settings_of after.now)) }
{
    let outcome = changes_between(alloc, before, after);
    or_want_of_memory(outcome)
}

// Reads the configuration of this content, or explains its faults. Allocates it. Its warnings aren't computed: those of
// the configuration with which the run began are logged, and `check` prints those of any other.
fn config_of_text(alloc: Global, content: &[u8]) -> Result<Config, NotTaken>
    ensures config { IfOk result (IsConfigOf content.now) }
    ensures wrong { IfErr result (IsWrong content.now) }
{
    if let Ok(text) = str::from_utf8(content) {
        if let Ok(config) = read_config(alloc, text) {
            return Ok(config);
        }
    }
    match explain(alloc, content) {
        Ok(explained) => Ok(explained.config),
        Err(faults) => Err(NotTaken::Wrong(reason_of(faults))),
    }
}
