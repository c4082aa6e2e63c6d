//! The lines about a configuration that was changed while the gateway runs.

ghost use Rattle.std.specs.Prelude.{◌≡◌};
ghost use Rattle.srt_log.specs.Texts.{put};
ghost use Rattle.srt_log.specs.ConfigEvents.{taken_text, cause_text, closes_text, opens_text, also_text, other_text, end_text, fixed_text, no_memory_text};
ghost use Rattle.srt_log.specs.ConfigEvents.{first_text, others_text, numbers_text, no_indexes_text, few_indexes_text, held_text, about_text, config_text};

use crate::config_events::{ChangeSummary, CloseCause, ConfigEvent};
use crate::line::Line;
use srt_config::FixedKeys;

/// Puts how many routes a configuration has of each kind.
#[tactic(auto, using(crate::proofs::Puts::put_put))]
fn put_numbers(line: &mut Line, routes: ChangeSummary)
    ensures { line.new.text.items ≡ put line.old.text.items (numbers_text routes) }
{
    line.put_number(routes.staying);
    line.put(b" routes stay, ");
    line.put_number(routes.opening);
    line.put(b" open, ");
    line.put_number(routes.closing);
    line.put(b" close, ");
    line.put_number(routes.changing);
    line.put(b" change");
}

#[tactic(auto, using(crate::proofs::Puts::put_put))]
fn put_taken(line: &mut Line, routes: ChangeSummary)
    ensures { line.new.text.items ≡ put line.old.text.items (taken_text routes) }
{
    line.put(b"configuration changed: ");
    put_numbers(line, routes);
}

fn put_close_cause(line: &mut Line, cause: CloseCause)
    ensures { line.new.text.items ≡ put line.old.text.items (cause_text cause) }
{
    match cause {
        CloseCause::Removed => line.put(b": closed, it is no longer in the configuration"),
        CloseCause::OtherKeys => line.put(b": closed, to open again with other keys"),
    }
}

#[tactic(auto, using(crate::proofs::Puts::put_put))]
fn put_closes(line: &mut Line, route: &[u8], cause: CloseCause)
    ensures { line.new.text.items ≡ put line.old.text.items (closes_text route.now cause) }
{
    line.put_escaped(route);
    put_close_cause(line, cause);
}

#[tactic(auto, using(crate::proofs::Puts::put_put))]
fn put_opens(line: &mut Line, route: &[u8], index: u64, megabytes: u64)
    ensures { line.new.text.items ≡ put line.old.text.items (opens_text route.now index megabytes) }
{
    line.put_escaped(route);
    line.put(b": opened with index ");
    line.put_number(index);
    line.put(b", ");
    line.put_number(megabytes);
    line.put(b" MB");
}

/// Puts the first of the keys that differ.
fn put_first(line: &mut Line, keys: FixedKeys)
    ensures { line.new.text.items ≡ put line.old.text.items (first_text keys) }
{
    if keys.bind {
        line.put(b"bind");
    } else if keys.workers {
        line.put(b"workers");
    } else if keys.status {
        line.put(b"status");
    } else {
        line.put(b"secret");
    }
}

/// Puts what stands before a key that differs beside the first one: a parenthesis if no other one came before it.
fn put_also(line: &mut Line, is_first: bool)
    ensures { line.new.text.items ≡ put line.old.text.items (also_text is_first) }
{
    if is_first {
        line.put(b" (also: ");
    } else {
        line.put(b", ");
    }
}

/// Puts a key that differs beside the first one, if it is such a key.
#[tactic(auto, using(crate::proofs::Puts::put_put))]
fn put_other(line: &mut Line, is_other: bool, is_first: bool, name: &[u8])
    ensures { line.new.text.items ≡ put line.old.text.items (other_text is_other is_first name.now) }
{
    if is_other {
        put_also(line, is_first);
        line.put(name);
    } else {
        line.put(b"");
    }
}

/// Puts the end of the keys that differ beside the first one, if there are any.
fn put_end(line: &mut Line, any: bool)
    ensures { line.new.text.items ≡ put line.old.text.items (end_text any) }
{
    if any {
        line.put(b")");
    } else {
        line.put(b"");
    }
}

/// Puts the keys that differ beside the first one.
#[tactic(auto, using(crate::proofs::Puts::put_put))]
fn put_others(line: &mut Line, keys: FixedKeys)
    ensures { line.new.text.items ≡ put line.old.text.items (others_text keys) }
{
    let workers = keys.bind & keys.workers;
    let status = (keys.bind | keys.workers) & keys.status;
    let secret = (keys.bind | keys.workers | keys.status) & keys.secret;
    put_other(line, workers, true, b"workers");
    put_other(line, status, !workers, b"status");
    put_other(line, secret, !workers & !status, b"secret");
    put_end(line, workers | status | secret);
}

#[tactic(auto, using(crate::proofs::Puts::put_put))]
fn put_fixed(line: &mut Line, keys: FixedKeys)
    ensures { line.new.text.items ≡ put line.old.text.items (fixed_text keys) }
{
    line.put(b"configuration not taken: ");
    put_first(line, keys);
    line.put(b" can't change while the gateway runs");
    put_others(line, keys);
    line.put(b"; restart it to change it");
}

#[tactic(auto, using(crate::proofs::Puts::put_put))]
fn put_no_memory(line: &mut Line, route: &[u8])
    ensures { line.new.text.items ≡ put line.old.text.items (no_memory_text route.now) }
{
    line.put(b"configuration not taken: no memory for ");
    line.put_escaped(route);
}

#[tactic(auto, using(crate::proofs::Puts::put_put))]
fn put_no_indexes(line: &mut Line, opens: u64, left: u64)
    ensures { line.new.text.items ≡ put line.old.text.items (no_indexes_text opens left) }
{
    line.put(b"configuration not taken: ");
    line.put_number(opens);
    line.put(b" routes are to open, ");
    line.put_number(left);
    line.put(b" indexes are left; restart the gateway");
}

#[tactic(auto, using(crate::proofs::Puts::put_put))]
fn put_few_indexes(line: &mut Line, left: u64)
    ensures { line.new.text.items ≡ put line.old.text.items (few_indexes_text left) }
{
    line.put_number(left);
    line.put(
        b" of 511 indexes are left; each route that opens while the gateway runs uses one, restart it in a quiet hour",
    );
}

#[tactic(auto, using(crate::proofs::Puts::put_put))]
fn put_held(line: &mut Line, route: &[u8])
    ensures { line.new.text.items ≡ put line.old.text.items (held_text route.now) }
{
    line.put(b"configuration closes ");
    line.put_escaped(route);
    line.put(b", which has sessions; it is taken if it stays so for 5 s");
}

/// Puts words and a text for people.
#[tactic(auto, using(crate::proofs::Puts::put_put))]
fn put_about(line: &mut Line, words: &[u8], why: &[u8])
    ensures { line.new.text.items ≡ put line.old.text.items (about_text words.now why.now) }
{
    line.put(words);
    line.put_readable(why);
}

/// Puts the text of an event of a configuration that was changed.
pub(crate) fn put_config(line: &mut Line, event: ConfigEvent<'_>)
    ensures { line.new.text.items ≡ put line.old.text.items (config_text event.entry) }
{
    match event {
        ConfigEvent::Taken { routes } => put_taken(line, routes),
        ConfigEvent::RouteCloses { route, cause } => put_closes(line, route, cause),
        ConfigEvent::RouteOpens {
            route,
            index,
            megabytes,
        } => put_opens(line, route, index, megabytes),
        ConfigEvent::KeysDiffer { keys } => put_fixed(line, keys),
        ConfigEvent::Wrong { why } => put_about(line, b"configuration not taken: ", why),
        ConfigEvent::NoMemory { route } => put_no_memory(line, route),
        ConfigEvent::NoIndexes { opens, left } => put_no_indexes(line, opens, left),
        ConfigEvent::Unread { why } => put_about(line, b"configuration can't be read: ", why),
        ConfigEvent::Held { route } => put_held(line, route),
        ConfigEvent::FewIndexes { left } => put_few_indexes(line, left),
    }
}
