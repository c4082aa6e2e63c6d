//! What a changed configuration requests.

use super::{RIGHT, changed, config_of, with_routes};
use crate::{Changes, FixedKeys, RouteChange, changes_between, is_readmission};
use srt_types::Schedule;
use std::process::Abort;
use std::test::Fail;

/// A third route.
const THIRD: &str = "
[[route]]
name = \"third\"
mode = \"live\"
latency_ms = 200
buffer = 64
sessions = 2
inbox = 16
outbox = 16
";

/// Which of `secret`, `bind`, `workers` and `status` differ.
fn fixed(secret: bool, bind: bool, workers: bool, status: bool) -> FixedKeys {
    FixedKeys {
        secret,
        bind,
        workers,
        status,
    }
}

/// Returns what the second text requests of a gateway that runs with the first one.
fn changes_to(rt: &(impl AllocGlobal + Abort), before: &str, after: &str) -> Result<Changes, Fail> {
    let before = config_of(rt, before)?;
    let after = config_of(rt, after)?;
    Ok(changes_between(rt.alloc(), &before, &after)?)
}

/// Asserts that a change of the valid configuration, with `from` replaced by `to`, requests exactly this.
fn assert_changes(
    rt: &(impl AllocGlobal + Abort),
    from: &str,
    to: &str,
    keys: FixedKeys,
    routes: &[RouteChange],
    gone: &[usize],
) -> Result<(), Fail> {
    let after = changed(rt, RIGHT, from, to)?;
    let found = changes_to(rt, RIGHT, after.as_str())?;
    assert_eq!(rt; found.fixed, keys);
    assert_eq!(rt; found.routes.as_slice(), routes);
    assert_eq!(rt; found.gone.as_slice(), gone);
    Ok(())
}

/// Asserts that the second route opens again if it has this line too, and that nothing else changes.
fn assert_second_reopens(rt: &(impl AllocGlobal + Abort), line: &str) -> Result<(), Fail> {
    let none = fixed(false, false, false, false);
    let second = [RouteChange::Stays(0), RouteChange::Reopens(1)];
    let both = format!(in rt.alloc(); "buffer = 32\n{line}")?;
    assert_changes(rt, "buffer = 32\n", both.as_str(), none, &second, &[])
}

#[test]
fn the_same_text_asks_nothing(rt: HostRuntime) -> Result<(), Fail> {
    let none = fixed(false, false, false, false);
    let stay = [RouteChange::Stays(0), RouteChange::Stays(1)];
    assert_changes(
        &rt,
        "workers = 1\n",
        "workers = 1 # a comment\n",
        none,
        &stay,
        &[],
    )
}

#[test]
fn a_route_that_is_renamed_closes_and_opens(rt: HostRuntime) -> Result<(), Fail> {
    let none = fixed(false, false, false, false);
    let renamed = [RouteChange::Opens, RouteChange::Stays(1)];
    assert_changes(&rt, "\"studio\"", "\"stage\"", none, &renamed, &[0])
}

#[test]
fn a_route_with_another_key_opens_again(rt: HostRuntime) -> Result<(), Fail> {
    let none = fixed(false, false, false, false);
    let first = [RouteChange::Reopens(0), RouteChange::Stays(1)];
    assert_changes(&rt, "buffer = 1024\n", "buffer = 512\n", none, &first, &[])?;
    for line in [
        "close_round = 9\n",
        "request_key = \"k\"\n",
        "reserved = 1\n",
    ] {
        assert_second_reopens(&rt, line)?;
    }
    Ok(())
}

#[test]
fn routes_are_found_by_their_names(rt: HostRuntime) -> Result<(), Fail> {
    let none = fixed(false, false, false, false);
    let moved = [
        RouteChange::Opens,
        RouteChange::Stays(0),
        RouteChange::Stays(1),
    ];
    let mut front = String::from_str(rt.alloc(), "workers = 1\n")?;
    front.push_str(THIRD)?;
    assert_changes(&rt, "workers = 1\n", front.as_str(), none, &moved, &[])
}

#[test]
fn keys_that_cannot_change_are_reported(rt: HostRuntime) -> Result<(), Fail> {
    let stay = [RouteChange::Stays(0), RouteChange::Stays(1)];
    let page = "workers = 1\nstatus = \"127.0.0.1:0\"\n";
    for (from, to, keys) in [
        ("\"0001", "\"0101", fixed(true, false, false, false)),
        (
            "127.0.0.1:0",
            "127.0.0.1:9",
            fixed(false, true, false, false),
        ),
        (
            "workers = 1\n",
            "workers = 2\n",
            fixed(false, false, true, false),
        ),
        ("workers = 1\n", page, fixed(false, false, false, true)),
    ] {
        assert_changes(&rt, from, to, keys, &stay, &[])?;
    }
    Ok(())
}

#[test]
fn lists_keys_and_rules_are_compared(rt: HostRuntime) -> Result<(), Fail> {
    for line in [
        "publish_from = [\"10.0.0.0/8\"]\n",
        "request_from = [\"10.0.0.0/8\"]\n",
        "publish_key = \"k\"\n",
        "callers = \"libsrt\"\n",
        "sessions_per_address = 1\n",
        "takeover_ms = 100\n",
        "resend_percent = 5\n",
        "publish_passphrase = \"correct horse battery\"\n",
        "request_passphrase = \"hold the line please\"\n",
    ] {
        assert_second_reopens(&rt, line)?;
    }
    Ok(())
}

/// A second route with a passphrase, and what it may become: with other keys, another passphrase, or a length of keys.
const PASSPHRASE: &str = "buffer = 32\npublish_passphrase = \"correct horse battery\"\n";

const ANOTHER_KEY: &str =
    "buffer = 32\npublish_passphrase = \"correct horse battery\"\npublish_key = \"k\"\n";

const ANOTHER_PASSPHRASE: &str = "buffer = 32\npublish_passphrase = \"correct horse batterY\"\n";

const A_LENGTH: &str =
    "buffer = 32\npublish_passphrase = \"correct horse battery\"\npbkeylen = 24\n";

/// Asserts that the second route opens again where it had a passphrase and has these lines now, and whether it differs in lists and
/// keys alone.
fn assert_readmission(
    rt: &(impl AllocGlobal + Abort),
    lines: &str,
    is_one: bool,
) -> Result<(), Fail> {
    let text = changed(rt, RIGHT, "buffer = 32\n", PASSPHRASE)?;
    let before = config_of(rt, text.as_str())?;
    let text = changed(rt, RIGHT, "buffer = 32\n", lines)?;
    let after = config_of(rt, text.as_str())?;
    let found = changes_between(rt.alloc(), &before, &after)?;
    assert_eq!(rt;
        found.routes.as_slice(),
        &[RouteChange::Stays(0), RouteChange::Reopens(1)][..]
    );
    match after.entries.as_slice().last() {
        Some(entry) => {
            let schedule = Schedule {
                open_round: 0,
                close_round: None,
            };
            assert_eq!(rt; is_readmission(&before, 1, entry, schedule), is_one);
        }
        None => assert!(rt; false, "no entry"),
    }
    Ok(())
}

#[test]
fn another_passphrase_is_no_readmission(rt: HostRuntime) -> Result<(), Fail> {
    assert_readmission(&rt, ANOTHER_KEY, true)?;
    assert_readmission(&rt, ANOTHER_PASSPHRASE, false)?;
    assert_readmission(&rt, A_LENGTH, false)?;
    assert_readmission(&rt, "buffer = 32\n", false)
}

#[test]
fn many_routes_are_removed(rt: HostRuntime) -> Result<(), Fail> {
    let before = with_routes(&rt, 511)?;
    let after = with_routes(&rt, 17)?;
    let found = changes_to(&rt, before.as_str(), after.as_str())?;
    assert_eq!(rt; found.gone.len(), 494);
    assert_eq!(rt; found.gone.as_slice().first(), Some(&17));
    assert_eq!(rt; found.gone.as_slice().last(), Some(&510));
    assert_eq!(rt; found.routes.len(), 17);
    assert_eq!(rt;
        found.routes.as_slice().last(),
        Some(&RouteChange::Stays(16))
    );
    Ok(())
}
