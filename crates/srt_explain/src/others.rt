//! The faults of a configuration after its first.

ghost use Rattle.std.specs.Prelude.{◌≡◌, ◌-◌, [], length, map, drop, take, option_map, IfOk};
ghost use Rattle.toml.specs.Parse.{parse_document};
ghost use Rattle.toml.specs.View.{table_view};
ghost use Rattle.srt_config.specs.AllFaults.{faults_seen, all_faults};
ghost use Rattle.srt_explain.specs.Listing.{faults_of, told_of, ArePrivate};
ghost use Rattle.srt_explain.specs.Misspelled.{with_faults};
ghost use Rattle.srt_explain.specs.inside.Others.{AreOthers};

use crate::explaining::explained_line;
use crate::explanation::Explanation;
use crate::misspelled::told_faults;
use srt_config::{PlacedFault, all_faults, with_defaults};
use std::alloc::{AllocError, Global};
use toml::Table;

/// The most faults of a configuration that are explained.
const MAX_EXPLAINED: usize = 20;

/// The faults of a configuration after its first.
#[derive(Drop)]
pub(crate) struct Others {
    /// The next ones, 19 at most, explained.
    pub(crate) explained: Vec<Explanation>,
    /// How many there are beyond these.
    pub(crate) more: usize,
}

/// Explains the faults after the first of these, which are those of the table of this text, 19 at most.
fn explain_next(
    alloc: Global,
    text: &str,
    table: &Table,
    faults: Vec<PlacedFault>,
) -> Result<Vec<Explanation>, AllocError>
    ensures told { IfOk result (λ list. map told_of list.items ≡ take 19 (drop 1 (faults_seen faults.items))) }
    ensures private { IfOk result (λ list. ArePrivate list.items) }
{
    let mut list = Vec::new(alloc);
    let mut rest = faults.into_iter();
    drop(rest.next());
    for at in 1..MAX_EXPLAINED {
        let Some(placed) = rest.next() else {
            return Ok(list);
        };
        list.push(explained_line(text, table, placed))?;
    }
    Ok(list)
}

/// Returns all faults but the first of the table that is this text, as it is written and with the defaults, that are told.
#[tactic(auto, using(crate::proofs::Told::others_are))]
fn others_of(
    alloc: Global,
    text: &str,
    written: &Table,
    whole: &Table,
) -> Result<Others, AllocError>
    ensures { IfOk result (AreOthers (with_faults [] (all_faults (table_view written.now) (table_view whole.now)))) }
{
    let faults = told_faults(alloc, all_faults(alloc, written, whole)?)?;
    let more = faults.len().saturating_sub(MAX_EXPLAINED);
    Ok(Others {
        explained: explain_next(alloc, text, whole, faults)?,
        more,
    })
}

/// Returns the table that a text is; None if it isn't TOML.
fn table_in(alloc: Global, text: &str) -> Result<Option<Table>, AllocError>
    ensures { IfOk result (λ table. option_map table_view table ≡ parse_document text.now) }
{
    match toml::table_from_str(alloc, text) {
        Ok(table) => Ok(Some(table)),
        Err(error) if error.is_memory() => Err(AllocError),
        Err(_) => Ok(None),
    }
}

/// Returns no faults.
fn no_others(alloc: Global) -> Others
    ensures explained { result.explained.items ≡ [] }
    ensures more { result.more ≡ 0 }
{
    Others {
        explained: Vec::new(alloc),
        more: 0,
    }
}

/// Returns all faults but the first of the configuration in a text. Allocates its table twice, as it is written and with the defaults
/// in each route, and the list of all faults.
#[tactic(auto, using(crate::proofs::Told::no_others, crate::proofs::Told::others_of_text))]
pub(crate) fn others_in(alloc: Global, text: &str) -> Result<Others, AllocError>
    ensures { IfOk result (AreOthers (faults_of (parse_document text.now))) }
{
    let Some(written) = table_in(alloc, text)? else {
        return Ok(no_others(alloc));
    };
    let Some(table) = table_in(alloc, text)? else {
        return Ok(no_others(alloc));
    };
    let whole = with_defaults(alloc, table)?;
    others_of(alloc, text, &written, &whole)
}
