//! Changed routes of which only the lists of networks and the keys of roles differ (our choice).

ghost use Rattle.std.specs.Prelude.{◌≡◌, option_map};
ghost use Rattle.srt_types.specs.Terms.{terms_of};
ghost use Rattle.srt_config.specs.Config.{settings_of};
ghost use Rattle.srt_config.specs.Readmission.{has_terms_besides, has_keys_besides, is_readmission};

use crate::changes::{has_keys_at, has_schedule};
use crate::config::Config;
use crate::same_keys::same_besides;
use srt_types::{Entry, Schedule};

fn has_terms_besides(entry: &Entry, before: Option<&Entry>) -> bool
    ensures { result ≡ has_terms_besides (terms_of entry.now) (option_map (λ e. terms_of e.now) before.entry) }
{
    match before {
        Some(before) => same_besides(before, entry),
        None => false,
    }
}

fn has_keys_besides(before: &Config, place: usize, entry: &Entry, schedule: Schedule) -> bool
    ensures { result ≡ has_keys_besides (settings_of before.now) place (terms_of entry.now) schedule }
{
    has_terms_besides(entry, before.entries.get(place))
        && has_schedule(schedule, before.schedules.get(place))
}

/// Whether a route of a changed configuration differs from the one at this place of the configuration before, counted from 0, in
/// some of `publish_from`, `request_from`, `publish_key` and `request_key`, and in no other key. False if there is none. Where
/// `changes_between` returns `Reopens` with this place, the lists and keys of the open route could be replaced instead, as by
/// `Names::replace_access` of `srt_lobby`. Linear in the length of names, lists, keys and passphrases. Doesn't allocate.
pub fn is_readmission(before: &Config, place: usize, entry: &Entry, schedule: Schedule) -> bool
    ensures { result ≡ is_readmission (settings_of before.now) place (terms_of entry.now) schedule }
{
    has_keys_besides(before, place, entry, schedule) && !has_keys_at(before, place, entry, schedule)
}
