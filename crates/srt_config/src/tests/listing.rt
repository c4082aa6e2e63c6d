//! All faults of a configuration.

use super::RIGHT;
use crate::{Place, PlacedFault, all_faults, with_defaults};
use std::fmt::InlineText;
use std::process::Abort;
use std::test::Fail;

/// A configuration with faults in each of its parts: the second route lacks `sessions`, which is wrong in the defaults, and the third
/// has the name of the second.
const WRONG: &str = "\
secret = \"00\"
bind = \"127.0.0.1:0\"
workers = 17
colour = 1

[defaults]
sessions = 40
mode = \"live\"

[[route]]
name = \"a b\"
latency_ms = 19
buffer = 32
sessions = 2
inbox = 16
outbox = 16
reserved = 2

[[route]]
name = \"studio\"
latency_ms = 120
buffer = 32
inbox = 16
outbox = 16

[[route]]
name = \"studio\"
latency_ms = 120
buffer = 32
sessions = 40
inbox = 16
outbox = 16
open_round = 7
close_round = 7
";

/// Asserts the part and the line of a fault.
fn assert_fault(rt: &impl Abort, fault: Option<&PlacedFault>, place: Place, line: &str) {
    match fault {
        Some(it) => {
            assert_eq!(rt; it.place, place);
            assert_eq!(rt; InlineText::<64>::of(&it.fault).as_str(), line);
        }
        None => assert!(rt; false, "no fault"),
    }
}

/// The faults of a text that is TOML.
fn faults_of(rt: &(impl AllocGlobal + Abort), text: &str) -> Result<Vec<PlacedFault>, Fail> {
    let written = match toml::table_from_str(rt.alloc(), text) {
        Ok(table) => table,
        Err(_) => return Err(Fail::from("no table")),
    };
    let whole = with_defaults(rt.alloc(), written.clone()?)?;
    Ok(all_faults(rt.alloc(), &written, &whole)?)
}

#[test]
fn each_fault_is_listed_once(rt: HostRuntime) -> Result<(), Fail> {
    let faults = faults_of(&rt, WRONG)?;
    assert_eq!(rt; faults.len(), 10);
    assert_fault(&rt, faults.get(0), Place::Above, "config fault 2 colour");
    assert_fault(&rt, faults.get(1), Place::Above, "config fault 8 secret");
    assert_fault(&rt, faults.get(2), Place::Above, "config fault 5 workers");
    assert_fault(
        &rt,
        faults.get(3),
        Place::Defaults,
        "config fault 5 sessions",
    );
    assert_fault(&rt, faults.get(4), Place::Route(1), "config fault 6 name");
    assert_fault(
        &rt,
        faults.get(5),
        Place::Route(1),
        "config fault 5 latency_ms",
    );
    assert_fault(
        &rt,
        faults.get(6),
        Place::Route(1),
        "config fault 5 reserved",
    );
    assert_fault(&rt, faults.get(7), Place::Route(3), "config fault 7 name");
    assert_fault(
        &rt,
        faults.get(8),
        Place::Route(3),
        "config fault 5 sessions",
    );
    assert_fault(
        &rt,
        faults.get(9),
        Place::Route(3),
        "config fault 5 close_round",
    );
    Ok(())
}

#[test]
fn a_right_configuration_has_none(rt: HostRuntime) -> Result<(), Fail> {
    assert!(rt; faults_of(&rt, RIGHT)?.is_empty());
    Ok(())
}
