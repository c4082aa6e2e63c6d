//! The lines of faults. Their words are rows of `tests/cli`.

use crate::{Explained, explain};
use std::fmt::InlineText;
use std::process::Abort;
use std::test::Fail;

/// The keys above the routes, and defaults. The texts have what looks like keys and routes.
const TOP: &str = "\
# [[route]]
secret = \"000102030405060708090a0b0c0d0e0f101112131415161718191a1b1c1d1e1f\"
bind = \"127.0.0.1:0\"
\"workers\" = 1

[defaults]
mode = \"live\"
latency_ms = 120
publish_from = [
    \"192.0.2.7\", # ]
    \"198.51.100.0/24\",
]
";

/// Two routes.
const ROUTES: &str = "
[[route]]
name = \"studio\"
buffer = 32
sessions = 5
inbox = 16
outbox = 16

[[route]]
name = \"files\"
buffer = 32
sessions = 5
inbox = 16
outbox = 16
";

/// Asserts the text of the fault of a configuration, from its beginning, if this is replaced where it is last.
fn assert_fault(
    rt: &(impl AllocGlobal + Abort),
    old: &str,
    new: &str,
    wanted: &str,
) -> Result<(), Fail> {
    let text = format!(in rt.alloc(); "{TOP}{ROUTES}")?;
    let Some((before, behind)) = text.rsplit_once(old) else {
        return Err(Fail::from("nothing to change"));
    };
    let changed = format!(in rt.alloc(); "{before}{new}{behind}")?;
    match explain(rt.alloc(), changed.as_bytes()) {
        Ok(_) => Err(Fail::from("a right configuration")),
        Err(explanation) => {
            let said = InlineText::<512>::of(&explanation);
            let said = said.as_str();
            assert!(rt; said.starts_with(wanted), "it is {said}");
            Ok(())
        }
    }
}

#[test]
fn a_fault_has_the_line_of_its_key(rt: HostRuntime) -> Result<(), Fail> {
    assert_fault(
        &rt,
        "workers\" = 1",
        "workers\" = 17",
        "line 4: workers = 17: ",
    )?;
    assert_fault(
        &rt,
        "latency_ms = 120",
        "latency_ms = 19",
        "line 8: [defaults]: latency_ms = 19: ",
    )?;
    assert_fault(
        &rt,
        "sessions = 5",
        "sessions = 40",
        "line 24: route 2 (files): sessions = 40: ",
    )?;
    assert_fault(
        &rt,
        "buffer = 32",
        "buffer = \"\"\"\n[[route]]\nsessions = 1\"\"\"",
        "line 23: route 2 (files): buffer = ",
    )?;
    assert_fault(
        &rt,
        "inbox = 16",
        "'inbox' = 1",
        "line 25: route 2 (files): inbox = 1: ",
    )?;
    assert_fault(
        &rt,
        "outbox = 16",
        "outbox = 16\npublish_from = '[[route]]'",
        "line 27: route 2 (files): publish_from = ",
    )?;
    assert_fault(
        &rt,
        "    \"192.0.2.7\", # ]",
        "    '''\n[[route]]''',",
        "line 9: [defaults]: publish_from = ",
    )?;
    Ok(())
}

#[test]
fn a_key_that_is_not_written_has_the_line_of_its_part(rt: HostRuntime) -> Result<(), Fail> {
    assert_fault(
        &rt,
        "outbox = 16\n",
        "",
        "line 21: route 2 (files): outbox is missing",
    )?;
    assert_fault(&rt, "bind = \"127.0.0.1:0\"\n", "", "bind is missing")?;
    Ok(())
}

/// Asserts the text of the warning at this place.
fn assert_warning(rt: &impl Abort, explained: &Explained, at: usize, wanted: &str) {
    match explained.warnings.get(at) {
        Some(warning) => {
            let said = InlineText::<256>::of(explained.text_of(*warning));
            let said = said.as_str();
            assert!(rt; said == wanted, "it is {said}");
        }
        None => assert!(rt; false, "there is none"),
    }
}

#[test]
fn warnings_of_many_routes_are_told_of_three(rt: HostRuntime) -> Result<(), Fail> {
    let mut text = format!(in rt.alloc(); "{TOP}")?;
    for name in ["a", "b", "c", "d", "e", "f"] {
        let route = format!(in rt.alloc();
            "\n[[route]]\nname = \"{name}\"\nbuffer = 256\nsessions = 2\ninbox = 16\noutbox = 136\ncallers = \"libsrt\"\n"
        )?;
        text.push_str(route.as_str())?;
    }
    let Ok(explained) = explain(rt.alloc(), text.as_bytes()) else {
        return Err(Fail::from("a wrong configuration"));
    };
    assert!(&rt; explained.warnings.len() == 9);
    assert_warning(
        &rt,
        &explained,
        1,
        "warning: route 1 (a): takeover_ms is missing, so a backup encoder waits for the end of the other session, five silent seconds; write takeover_ms = 500",
    );
    assert_warning(
        &rt,
        &explained,
        7,
        "warning: takeover_ms: more routes have this warning: 3",
    );
    assert_warning(
        &rt,
        &explained,
        8,
        "warning: resend_percent: more routes have this warning: 3",
    );
    Ok(())
}

/// Returns how many faults of a configuration are told, if this is replaced where it is last.
fn told_after(rt: &impl AllocGlobal, old: &str, new: &str) -> Result<usize, Fail> {
    let text = format!(in rt.alloc(); "{TOP}{ROUTES}")?;
    let Some((before, behind)) = text.rsplit_once(old) else {
        return Err(Fail::from("nothing to change"));
    };
    let changed = format!(in rt.alloc(); "{before}{new}{behind}")?;
    match explain(rt.alloc(), changed.as_bytes()) {
        Ok(_) => Ok(0),
        Err(faults) => Ok(faults.others.len().saturating_add(1)),
    }
}

#[test]
fn a_misspelled_key_is_told_once(rt: HostRuntime) -> Result<(), Fail> {
    assert_eq!(&rt; told_after(&rt, "buffer = 32", "bufer = 32")?, 1);
    assert_eq!(&rt; told_after(&rt, "latency_ms", "latency_sm")?, 1);
    assert_eq!(&rt; told_after(&rt, "\"workers\"", "\"worker\"")?, 1);
    assert_eq!(&rt; told_after(&rt, "buffer = 32", "window = 32")?, 2);
    Ok(())
}
