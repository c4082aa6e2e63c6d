//! The members of a JSON object about a configuration that was changed while the gateway runs.

ghost use Rattle.std.specs.Prelude.{◌≡◌, ◌++◌, OnOk};
ghost use Rattle.srt_log.specs.ConfigObjects.{config_kind, numbers_members, close_name, closes_members, opens_members, keys_members};
ghost use Rattle.srt_log.specs.ConfigObjects.{no_indexes_members, config_members};

use crate::config_events::{ChangeSummary, CloseCause, ConfigEvent};
use crate::members::{put_flag, put_number, put_readable, put_shown, put_text};
use srt_config::FixedKeys;
use std::alloc::AllocError;

/// The word for an event of a configuration.
pub(crate) fn config_kind(event: ConfigEvent<'_>) -> &'static str
    ensures { result.now ≡ config_kind event.entry }
{
    match event {
        ConfigEvent::Taken { .. } => "config_taken",
        ConfigEvent::RouteCloses { .. } => "route_closes",
        ConfigEvent::RouteOpens { .. } => "route_opens",
        ConfigEvent::KeysDiffer { .. } => "config_keys_differ",
        ConfigEvent::Wrong { .. } => "config_wrong",
        ConfigEvent::NoMemory { .. } => "config_no_memory",
        ConfigEvent::NoIndexes { .. } => "config_no_indexes",
        ConfigEvent::Unread { .. } => "config_unread",
        ConfigEvent::Held { .. } => "config_held",
        ConfigEvent::FewIndexes { .. } => "few_indexes",
    }
}

#[tactic(auto, using(crate::proofs::Growing::joined), unfolding(crate::specs::ConfigObjects::numbers_members))]
fn put_numbers(out: &mut Vec<u8>, routes: ChangeSummary) -> Result<(), AllocError>
    ensures { OnOk result (out.new.items ≡ out.old.items ++ numbers_members routes) }
{
    put_number(out, b"staying", routes.staying)?;
    put_number(out, b"opening", routes.opening)?;
    put_number(out, b"closing", routes.closing)?;
    put_number(out, b"changing", routes.changing)
}

fn close_name(cause: CloseCause) -> &'static str
    ensures { result.now ≡ close_name cause }
{
    match cause {
        CloseCause::Removed => "removed",
        CloseCause::OtherKeys => "other_keys",
    }
}

#[tactic(auto, using(crate::proofs::Growing::joined), unfolding(crate::specs::ConfigObjects::closes_members))]
fn put_closes(out: &mut Vec<u8>, route: &[u8], cause: CloseCause) -> Result<(), AllocError>
    ensures { OnOk result (out.new.items ≡ out.old.items ++ closes_members route.now cause) }
{
    put_shown(out, b"route", route)?;
    put_text(out, b"cause", close_name(cause).as_bytes())
}

#[tactic(auto, using(crate::proofs::Growing::joined), unfolding(crate::specs::ConfigObjects::opens_members))]
fn put_opens(out: &mut Vec<u8>, route: &[u8], index: u64, megabytes: u64) -> Result<(), AllocError>
    ensures { OnOk result (out.new.items ≡ out.old.items ++ opens_members route.now index megabytes) }
{
    put_shown(out, b"route", route)?;
    put_number(out, b"index", index)?;
    put_number(out, b"megabytes", megabytes)
}

/// Puts which keys differ.
#[tactic(auto, using(crate::proofs::Growing::joined), unfolding(crate::specs::ConfigObjects::keys_members))]
fn put_keys(out: &mut Vec<u8>, keys: FixedKeys) -> Result<(), AllocError>
    ensures { OnOk result (out.new.items ≡ out.old.items ++ keys_members keys) }
{
    put_flag(out, b"bind", keys.bind)?;
    put_flag(out, b"workers", keys.workers)?;
    put_flag(out, b"status", keys.status)?;
    put_flag(out, b"secret", keys.secret)
}

#[tactic(auto, using(crate::proofs::Growing::joined), unfolding(crate::specs::ConfigObjects::no_indexes_members))]
fn put_no_indexes(out: &mut Vec<u8>, opens: u64, left: u64) -> Result<(), AllocError>
    ensures { OnOk result (out.new.items ≡ out.old.items ++ no_indexes_members opens left) }
{
    put_number(out, b"opening", opens)?;
    put_number(out, b"left", left)
}

/// Puts the facts of an event of a configuration.
pub(crate) fn put_config(out: &mut Vec<u8>, event: ConfigEvent<'_>) -> Result<(), AllocError>
    ensures { OnOk result (out.new.items ≡ out.old.items ++ config_members event.entry) }
{
    match event {
        ConfigEvent::Taken { routes } => put_numbers(out, routes),
        ConfigEvent::RouteCloses { route, cause } => put_closes(out, route, cause),
        ConfigEvent::RouteOpens {
            route,
            index,
            megabytes,
        } => put_opens(out, route, index, megabytes),
        ConfigEvent::KeysDiffer { keys } => put_keys(out, keys),
        ConfigEvent::Wrong { why } => put_readable(out, b"why", why),
        ConfigEvent::NoMemory { route } => put_shown(out, b"route", route),
        ConfigEvent::NoIndexes { opens, left } => put_no_indexes(out, opens, left),
        ConfigEvent::Unread { why } => put_readable(out, b"why", why),
        ConfigEvent::Held { route } => put_shown(out, b"route", route),
        ConfigEvent::FewIndexes { left } => put_number(out, b"left", left),
    }
}
