//! Names that are appended hidden, and made visible later.

use super::{
    ADDRESS, CONCLUSION, COOKIE_0, HEADER, HSREQ, STUDIO_ASKED, TO_SESSIONS, assert_refused,
    class_of, entry, hide, opened,
};
use crate::{Cause, Class, Names, NewName};
use srt_types::OpenFault;
use std::alloc::Global;
use std::process::Abort;
use std::test::Fail;

/// Returns the allocated name of a route to be added.
fn new_name(alloc: Global, name: &str) -> Result<NewName, Fail> {
    Ok(NewName::of(alloc, &entry(alloc, name)?)?)
}

/// Appends a name to fewer than 511.
fn append(rt: &impl Abort, names: &mut Names, name: NewName) {
    assert!(rt; names.len() < 511);
    names.append(name);
}

/// Makes a route visible whose name no other visible route has.
fn show(rt: &impl Abort, names: &mut Names, r: usize) {
    assert!(rt; r < names.len());
    assert!(rt; names.is_unused(r));
    names.show(r);
}

/// Asserts which of the first routes have a name that no other visible route has.
fn assert_unused(rt: &impl Abort, names: &Names, wanted: &[bool]) {
    for r in 0..wanted.len() {
        assert_eq!(rt; names.is_unused(r), wanted[r], "{r}");
    }
}

/// A visible route's name is appended: the new route receives no datagrams until the other one is hidden and it is
/// visible.
#[test]
fn a_name_in_use_is_appended(rt: HostRuntime) -> Result<(), Fail> {
    let alloc = rt.alloc();
    let dropped = Class::Dropped(Cause::UnknownId);
    let mut names = opened(alloc, &["studio", "files"])?;
    append(&rt, &mut names, new_name(alloc, "studio")?);
    assert_eq!(rt; names.len(), 3);
    assert!(rt; !names.shows(2));
    assert_eq!(rt; class_of(alloc, &names, &STUDIO_ASKED)?, Class::Route(0));
    assert_eq!(rt; class_of(alloc, &names, &TO_SESSIONS[1..])?, dropped);
    assert_unused(&rt, &names, &[true, true, false, true]);
    hide(&rt, &mut names, 0);
    assert_refused(&rt, class_of(alloc, &names, &STUDIO_ASKED)?, "000003ea")?;
    assert_unused(&rt, &names, &[true, true, true, true]);
    show(&rt, &mut names, 2);
    assert_eq!(rt; class_of(alloc, &names, &STUDIO_ASKED)?, Class::Route(2));
    assert_eq!(rt;
        class_of(alloc, &names, &TO_SESSIONS[1..])?,
        Class::Route(2)
    );
    assert_eq!(rt; class_of(alloc, &names, &TO_SESSIONS[..1])?, dropped);
    assert_unused(&rt, &names, &[false, true, true, true]);
    Ok(())
}

/// A name that no route has is appended twice: each route may be visible while the other is hidden.
#[test]
fn a_new_name_is_appended_twice(rt: HostRuntime) -> Result<(), Fail> {
    let alloc = rt.alloc();
    let mut names = opened(alloc, &["files"])?;
    append(&rt, &mut names, new_name(alloc, "studio")?);
    append(&rt, &mut names, new_name(alloc, "studio")?);
    assert_refused(&rt, class_of(alloc, &names, &STUDIO_ASKED)?, "000003ea")?;
    assert_unused(&rt, &names, &[true, true, true]);
    show(&rt, &mut names, 2);
    assert_eq!(rt; class_of(alloc, &names, &STUDIO_ASKED)?, Class::Route(2));
    assert_unused(&rt, &names, &[true, false, true]);
    hide(&rt, &mut names, 2);
    show(&rt, &mut names, 1);
    assert_eq!(rt; class_of(alloc, &names, &STUDIO_ASKED)?, Class::Route(1));
    assert_unused(&rt, &names, &[true, true, false]);
    Ok(())
}

/// Returns the names `route-1` to `route-510`, to be appended.
fn many(alloc: Global) -> Result<Vec<NewName>, Fail> {
    let mut made = Vec::new(alloc);
    for i in 1..511u32 {
        let name = format!(in alloc; "route-{i}")?;
        made.push(new_name(alloc, name.as_str())?)?;
    }
    Ok(made)
}

/// Names are appended until there are 511. Their memory was allocated before, so no step here allocates.
#[test]
fn names_are_appended_up_to_511(rt: HostRuntime) -> Result<(), Fail> {
    let alloc = rt.alloc();
    let mut names = opened(alloc, &["route-0"])?;
    for name in many(alloc)? {
        append(&rt, &mut names, name);
    }
    assert_eq!(rt; names.fault(b"one-more", true), Some(OpenFault::Limits));
    let last = ["80050000 00000000 00000000 1ff00000"];
    let dropped = Class::Dropped(Cause::UnknownId);
    assert_eq!(rt; class_of(alloc, &names, &last)?, dropped);
    show(&rt, &mut names, 510);
    assert_eq!(rt; class_of(alloc, &names, &last)?, Class::Route(510));
    // `route-510`
    let requested = "00050003 74756f72 31352d65 00000030";
    let conclusion = [HEADER, CONCLUSION, COOKIE_0, ADDRESS, HSREQ, requested];
    assert_eq!(rt; class_of(alloc, &names, &conclusion)?, Class::Route(510));
    Ok(())
}

/// If an allocation fails, no name is returned, and the next attempt is unaffected.
#[test]
fn refused_memory_makes_no_name(rt: HostRuntime) -> Result<(), Fail> {
    let alloc = rt.alloc();
    let mut names = opened(alloc, &["files"])?;
    let one = entry(alloc, "studio")?;
    let name = match NewName::of(alloc, &one) {
        Ok(name) => name,
        Err(_) => NewName::of(alloc, &one)?,
    };
    append(&rt, &mut names, name);
    show(&rt, &mut names, 1);
    assert_eq!(rt; class_of(alloc, &names, &STUDIO_ASKED)?, Class::Route(1));
    Ok(())
}
