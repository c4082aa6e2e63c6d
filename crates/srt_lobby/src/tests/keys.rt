//! Which conclusions with keys are for a route. The key material messages were made by another implementation of
//! RFC 3394 and RFC 8018 from the passphrases here; the words of callers are as libsrt sends them.

use super::{
    ADDRESS, CONCLUSION, COOKIE_0, FILTER, HEADER, HSREQ, NESTED, PUBLISH_FILES, PUBLISH_STUDIO,
    REQUEST_STUDIO, STUDIO, assert_refused, bytes_of, entry, near, push_words, secret,
};
use crate::{Class, Names, classify, refusal_cause};
use srt_types::{Access, KeyLength, NotAdmitted, Role, RoleAccess};
use std::alloc::Global;
use std::process::Abort;
use std::test::Fail;

const UNSECURE: &str = "000003f3";

const PEER: &str = "000003ea";

/// A KMREQ block with a key of 16 bytes.
const KEYS: &str =
    "0003000e 12202901 00000000 02000200 00000404 00112233 44556677 8899aabb ccddeeff 097ad2a2 96802dd0 3b3cad77 8b2ef5ec 61782692 f95549e2";

/// The same, whose last byte isn't that of the passphrase.
const OTHER_KEYS: &str =
    "0003000e 12202901 00000000 02000200 00000404 00112233 44556677 8899aabb ccddeeff 097ad2a2 96802dd0 3b3cad77 8b2ef5ec 61782692 f95549e3";

/// The same with the cipher 3, which there isn't.
const OTHER_CIPHER: &str =
    "0003000e 12202901 00000000 03000200 00000404 00112233 44556677 8899aabb ccddeeff 097ad2a2 96802dd0 3b3cad77 8b2ef5ec 61782692 f95549e2";

/// A KMREQ block with a key of 24 bytes.
const LONG_KEYS: &str =
    "00030010 12202901 00000000 02000200 00000406 ffeeddcc bbaa9988 77665544 33221100 55d5c0a0 4098090a a97287b4 eba8443d 46d8ba88 121ed818 7cffdf8e 770d9860";

/// Rules with these passphrases, and this length of keys.
fn secured(
    alloc: Global,
    publish: Option<&str>,
    request: Option<&str>,
    key_length: Option<KeyLength>,
) -> Result<Access, Fail> {
    let mut access = Access {
        publish: RoleAccess::every_caller(),
        request: RoleAccess::every_caller(),
        key_length,
    };
    if let Some(passphrase) = publish {
        access.publish.passphrase = Some(String::from_str(alloc, passphrase)?);
    }
    if let Some(passphrase) = request {
        access.request.passphrase = Some(String::from_str(alloc, passphrase)?);
    }
    Ok(access)
}

/// The routes `studio`, with these rules, and `files`, without rules.
fn routes(alloc: Global, access: Access) -> Result<Names, Fail> {
    let mut studio = entry(alloc, "studio")?;
    studio.access = access;
    let mut entries = Vec::new(alloc);
    entries.push(studio)?;
    entries.push(entry(alloc, "files")?)?;
    match Names::open(alloc, &entries) {
        Ok(names) => Ok(names),
        Err(_) => Err(Fail::from("names that don't open")),
    }
}

/// The datagram of a conclusion with a valid cookie and these blocks.
fn datagram(alloc: Global, blocks: &[&str]) -> Result<Vec<u8>, Fail> {
    let mut bytes = bytes_of(alloc, &[HEADER, CONCLUSION, COOKIE_0, ADDRESS, HSREQ])?;
    for block in blocks {
        push_words(alloc, &mut bytes, block)?;
    }
    Ok(bytes)
}

fn class(alloc: Global, names: &Names, blocks: &[&str]) -> Result<Class, Fail> {
    let bytes = datagram(alloc, blocks)?;
    Ok(classify(&secret(), names, near(5000), &bytes, 1_000_000))
}

/// Asserts that a conclusion with these blocks is for the first route.
fn assert_let_in(
    rt: &(impl AllocGlobal + Abort),
    names: &Names,
    blocks: &[&str],
) -> Result<(), Fail> {
    let class = class(rt.alloc(), names, blocks)?;
    assert_eq!(rt; class, Class::Route(0), "{blocks:?}");
    Ok(())
}

/// Asserts that a conclusion with these blocks is refused with this code.
fn assert_left_out(
    rt: &(impl AllocGlobal + Abort),
    names: &Names,
    blocks: &[&str],
    code: &str,
) -> Result<(), Fail> {
    let class = class(rt.alloc(), names, blocks)?;
    assert_refused(rt, class, code)
}

const HORSE: Option<&str> = Some("correct horse battery");

const LINE: Option<&str> = Some("hold the line please");

#[test]
fn a_secured_role_needs_one_message_that_reads(rt: HostRuntime) -> Result<(), Fail> {
    let names = routes(rt.alloc(), secured(rt.alloc(), HORSE, LINE, None)?)?;
    assert_let_in(&rt, &names, &[PUBLISH_STUDIO, KEYS])?;
    assert_let_in(&rt, &names, &[KEYS, PUBLISH_STUDIO])?;
    assert_let_in(&rt, &names, &[PUBLISH_STUDIO, LONG_KEYS])?;
    assert_let_in(&rt, &names, &[REQUEST_STUDIO, LONG_KEYS])?;
    assert_let_in(&rt, &names, &[STUDIO, KEYS])?;
    // whether it can be unwrapped is the route's question
    assert_let_in(&rt, &names, &[PUBLISH_STUDIO, OTHER_KEYS])?;
    assert_left_out(&rt, &names, &[PUBLISH_STUDIO], UNSECURE)?;
    assert_left_out(&rt, &names, &[REQUEST_STUDIO], UNSECURE)?;
    assert_left_out(&rt, &names, &[PUBLISH_STUDIO, OTHER_CIPHER], UNSECURE)?;
    assert_left_out(&rt, &names, &[PUBLISH_STUDIO, KEYS, KEYS], UNSECURE)
}

#[test]
fn keys_for_no_secured_role_are_refused(rt: HostRuntime) -> Result<(), Fail> {
    let names = routes(rt.alloc(), secured(rt.alloc(), HORSE, LINE, None)?)?;
    assert_left_out(&rt, &names, &[PUBLISH_FILES, KEYS], UNSECURE)?;
    assert_left_out(&rt, &names, &[NESTED, KEYS], UNSECURE)?;
    assert_left_out(&rt, &names, &[KEYS], UNSECURE)?;
    // a packet filter is refused after them, and before keys of the wrong form
    assert_left_out(&rt, &names, &[PUBLISH_FILES, KEYS, FILTER], UNSECURE)?;
    assert_left_out(&rt, &names, &[PUBLISH_STUDIO, KEYS, FILTER], "000003f6")?;
    assert_left_out(&rt, &names, &[PUBLISH_STUDIO, FILTER], "000003f6")
}

#[test]
fn roles_are_secured_one_by_one(rt: HostRuntime) -> Result<(), Fail> {
    let names = routes(rt.alloc(), secured(rt.alloc(), None, LINE, None)?)?;
    assert_let_in(&rt, &names, &[PUBLISH_STUDIO])?;
    assert_let_in(&rt, &names, &[REQUEST_STUDIO, LONG_KEYS])?;
    assert_left_out(&rt, &names, &[PUBLISH_STUDIO, KEYS], UNSECURE)?;
    assert_left_out(&rt, &names, &[REQUEST_STUDIO], UNSECURE)?;
    let names = routes(rt.alloc(), secured(rt.alloc(), HORSE, None, None)?)?;
    assert_let_in(&rt, &names, &[PUBLISH_STUDIO, KEYS])?;
    assert_let_in(&rt, &names, &[REQUEST_STUDIO])?;
    assert_left_out(&rt, &names, &[REQUEST_STUDIO, LONG_KEYS], UNSECURE)?;
    assert_left_out(&rt, &names, &[PUBLISH_STUDIO], UNSECURE)
}

#[test]
fn a_route_may_require_a_length_of_keys(rt: HostRuntime) -> Result<(), Fail> {
    let length = Some(KeyLength::Aes192);
    let names = routes(rt.alloc(), secured(rt.alloc(), HORSE, LINE, length)?)?;
    assert_let_in(&rt, &names, &[PUBLISH_STUDIO, LONG_KEYS])?;
    assert_left_out(&rt, &names, &[PUBLISH_STUDIO, KEYS], UNSECURE)
}

#[test]
fn keys_are_looked_at_after_the_list_and_the_key(rt: HostRuntime) -> Result<(), Fail> {
    let mut access = secured(rt.alloc(), HORSE, None, None)?;
    access.publish.key = Some(String::from_str(rt.alloc(), "in")?);
    let names = routes(rt.alloc(), access)?;
    assert_left_out(&rt, &names, &[PUBLISH_STUDIO], PEER)?;
    let bytes = datagram(rt.alloc(), &[PUBLISH_STUDIO, KEYS])?;
    let cause = refusal_cause(&names, near(5000), &bytes);
    assert_eq!(rt; cause, Some(NotAdmitted::Key(Role::Publish)));
    // a refusal for keys has no such cause
    let names = routes(rt.alloc(), secured(rt.alloc(), HORSE, None, None)?)?;
    let bytes = datagram(rt.alloc(), &[PUBLISH_STUDIO])?;
    assert_eq!(rt; refusal_cause(&names, near(5000), &bytes), None);
    Ok(())
}
