//! Lists and keys that are replaced. The expected classes follow from the rules of lists and keys.

use super::{
    ADDRESS, CONCLUSION, COOKIE_0, HEADER, HSREQ, PUBLISH_FILES, PUBLISH_STUDIO, REQUEST_STUDIO,
    assert_refused, bytes_of, entry, hide, near, opened, secret,
};
use crate::{Cause, Class, Names, NewAccess, classify};
use srt_types::{Access, Network, Peer};
use std::alloc::Global;
use std::process::Abort;
use std::test::Fail;

const PEER: &str = "000003ea";

/// `#!::r=studio,m=publish,k=in`
const PUBLISH_IN: &str = "00050007 3a3a2123 74733d72 6f696475 703d6d2c 696c6275 6b2c6873 006e693d";

/// `#!::r=studio,m=publish,k=out`
const PUBLISH_OUT: &str = "00050007 3a3a2123 74733d72 6f696475 703d6d2c 696c6275 6b2c6873 74756f3d";

/// `#!::r=studio,m=request,k=in`
const REQUEST_IN: &str = "00050007 3a3a2123 74733d72 6f696475 723d6d2c 65757165 6b2c7473 006e693d";

/// `#!::r=studio,m=request,k=out`
const REQUEST_OUT: &str = "00050007 3a3a2123 74733d72 6f696475 723d6d2c 65757165 6b2c7473 74756f3d";

/// Packets for a session of the first route and for one of the second.
const TO_SESSIONS: [&str; 2] = [
    "80050000 00000000 00000000 00100000",
    "80050000 00000000 00000000 00200000",
];

/// 10.1.2.3
const FAR: Peer = Peer {
    ip: [0, 0, 0, 0, 0, 0, 0, 0, 0, 0, 0xff, 0xff, 10, 1, 2, 3],
    port: 5000,
};

/// 127.0.0.0/8, which contains the address of the callers here
const NEAR_NETWORK: u32 = 0x7f00_0000;

/// 10.0.0.0/8, which doesn't
const FAR_NETWORK: u32 = 0x0a00_0000;

fn listed(alloc: Global, address: u32) -> Result<Option<Vec<Network>>, Fail> {
    let mut from = Vec::new(alloc);
    match Network::of_prefix(address, 8) {
        Some(network) => from.push(network)?,
        None => return Err(Fail::from("no network")),
    }
    Ok(Some(from))
}

/// Rules that admit publishers and subscribers from these networks.
fn from_networks(alloc: Global, publish: u32, request: u32) -> Result<Access, Fail> {
    let mut access = Access::anyone();
    access.publish.from = listed(alloc, publish)?;
    access.request.from = listed(alloc, request)?;
    Ok(access)
}

/// Rules that admit publishers with the key `in`, and subscribers with the key `out`.
fn with_keys(alloc: Global) -> Result<Access, Fail> {
    let mut access = Access::anyone();
    access.publish.key = Some(String::from_str(alloc, "in")?);
    access.request.key = Some(String::from_str(alloc, "out")?);
    Ok(access)
}

/// Replaces the lists and keys of a route.
fn replace(
    rt: &(impl AllocGlobal + Abort),
    names: &mut Names,
    r: usize,
    access: &Access,
) -> Result<(), Fail> {
    let new = NewAccess::of(rt.alloc(), access)?;
    assert!(rt; r < names.len());
    names.replace_access(r, new);
    Ok(())
}

/// The class of a conclusion from 127.0.0.1 with this Stream ID.
fn concluded(alloc: Global, names: &Names, id: &str) -> Result<Class, Fail> {
    let bytes = bytes_of(alloc, &[HEADER, CONCLUSION, COOKIE_0, ADDRESS, HSREQ, id])?;
    Ok(classify(&secret(), names, near(5000), &bytes, 1_000_000))
}

/// Asserts that conclusions with these Stream IDs are for the first route.
fn assert_admitted(
    rt: &(impl AllocGlobal + Abort),
    names: &Names,
    ids: &[&str],
) -> Result<(), Fail> {
    for id in ids {
        let class = concluded(rt.alloc(), names, id)?;
        assert_eq!(rt; class, Class::Route(0), "{id}");
    }
    Ok(())
}

/// Asserts that conclusions with these Stream IDs are refused with 1002.
fn assert_not_admitted(
    rt: &(impl AllocGlobal + Abort),
    names: &Names,
    ids: &[&str],
) -> Result<(), Fail> {
    for id in ids {
        assert_refused(rt, concluded(rt.alloc(), names, id)?, PEER)?;
    }
    Ok(())
}

/// The class of a packet from this peer to a session of the first route.
fn to_session(alloc: Global, names: &Names, peer: Peer) -> Result<Class, Fail> {
    let bytes = bytes_of(alloc, &TO_SESSIONS[..1])?;
    Ok(classify(&secret(), names, peer, &bytes, 1_000_000))
}

/// Asserts that the second route, without rules, admits the callers here.
fn assert_files_is_open(rt: &(impl AllocGlobal + Abort), names: &Names) -> Result<(), Fail> {
    let class = concluded(rt.alloc(), names, PUBLISH_FILES)?;
    assert_eq!(rt; class, Class::Route(1));
    let bytes = bytes_of(rt.alloc(), &TO_SESSIONS[1..])?;
    let class = classify(&secret(), names, near(5000), &bytes, 1_000_000);
    assert_eq!(rt; class, Class::Route(1));
    Ok(())
}

const STRANGER: Class = Class::Dropped(Cause::NotAllowed);

/// A caller outside of both new lists isn't heard any more, also with an open session, and one inside them is.
#[test]
fn the_new_lists_decide(rt: HostRuntime) -> Result<(), Fail> {
    let alloc = rt.alloc();
    let mut names = opened(alloc, &["studio", "files"])?;
    let near_only = from_networks(alloc, NEAR_NETWORK, NEAR_NETWORK)?;
    replace(&rt, &mut names, 0, &near_only)?;
    assert_admitted(&rt, &names, &[PUBLISH_STUDIO, REQUEST_STUDIO])?;
    assert_eq!(rt; to_session(alloc, &names, near(5000))?, Class::Route(0));
    assert_eq!(rt; to_session(alloc, &names, FAR)?, STRANGER);
    let far_only = from_networks(alloc, FAR_NETWORK, FAR_NETWORK)?;
    replace(&rt, &mut names, 0, &far_only)?;
    assert_not_admitted(&rt, &names, &[PUBLISH_STUDIO, REQUEST_STUDIO])?;
    assert_eq!(rt; to_session(alloc, &names, near(5000))?, STRANGER);
    assert_eq!(rt; to_session(alloc, &names, FAR)?, Class::Route(0));
    assert_files_is_open(&rt, &names)
}

/// Each role has its own new list. A caller in one of them keeps its session.
#[test]
fn each_role_has_its_new_list(rt: HostRuntime) -> Result<(), Fail> {
    let alloc = rt.alloc();
    let mut names = opened(alloc, &["studio", "files"])?;
    let publishers_far = from_networks(alloc, FAR_NETWORK, NEAR_NETWORK)?;
    replace(&rt, &mut names, 0, &publishers_far)?;
    assert_not_admitted(&rt, &names, &[PUBLISH_STUDIO])?;
    assert_admitted(&rt, &names, &[REQUEST_STUDIO])?;
    assert_eq!(rt; to_session(alloc, &names, near(5000))?, Class::Route(0));
    let publishers_near = from_networks(alloc, NEAR_NETWORK, FAR_NETWORK)?;
    replace(&rt, &mut names, 0, &publishers_near)?;
    assert_admitted(&rt, &names, &[PUBLISH_STUDIO])?;
    assert_not_admitted(&rt, &names, &[REQUEST_STUDIO])?;
    assert_files_is_open(&rt, &names)
}

/// The new keys are required, and the old ones no longer.
#[test]
fn the_new_keys_decide(rt: HostRuntime) -> Result<(), Fail> {
    let alloc = rt.alloc();
    let mut names = opened(alloc, &["studio", "files"])?;
    assert_admitted(&rt, &names, &[PUBLISH_STUDIO, PUBLISH_OUT, REQUEST_STUDIO])?;
    replace(&rt, &mut names, 0, &with_keys(alloc)?)?;
    assert_admitted(&rt, &names, &[PUBLISH_IN, REQUEST_OUT])?;
    assert_not_admitted(&rt, &names, &[PUBLISH_STUDIO, PUBLISH_OUT, REQUEST_STUDIO])?;
    assert_not_admitted(&rt, &names, &[REQUEST_IN])?;
    assert_eq!(rt; to_session(alloc, &names, near(5000))?, Class::Route(0));
    assert_files_is_open(&rt, &names)?;
    replace(&rt, &mut names, 0, &Access::anyone())?;
    assert_admitted(&rt, &names, &[PUBLISH_STUDIO, PUBLISH_OUT, REQUEST_IN])
}

/// A hidden route's lists are replaced: it receives nothing, and once it is visible the new ones decide.
#[test]
fn a_hidden_route_has_new_lists(rt: HostRuntime) -> Result<(), Fail> {
    let alloc = rt.alloc();
    let mut names = opened(alloc, &["studio", "files"])?;
    hide(&rt, &mut names, 0);
    let far_only = from_networks(alloc, FAR_NETWORK, FAR_NETWORK)?;
    replace(&rt, &mut names, 0, &far_only)?;
    assert!(rt; !names.shows(0));
    let unknown = Class::Dropped(Cause::UnknownId);
    assert_eq!(rt; to_session(alloc, &names, FAR)?, unknown);
    assert!(rt; names.is_unused(0));
    assert!(rt; 0 < names.len());
    names.show(0);
    assert_eq!(rt; to_session(alloc, &names, FAR)?, Class::Route(0));
    assert_eq!(rt; to_session(alloc, &names, near(5000))?, STRANGER);
    assert_not_admitted(&rt, &names, &[PUBLISH_STUDIO])?;
    assert_files_is_open(&rt, &names)
}

/// The passphrase of a role stays: a conclusion without keys is refused for these, before and after.
#[test]
fn a_passphrase_stays(rt: HostRuntime) -> Result<(), Fail> {
    let alloc = rt.alloc();
    let mut studio = entry(alloc, "studio")?;
    studio.access.publish.passphrase = Some(String::from_str(alloc, "correct horse battery")?);
    let Ok(opening) = Names::open(alloc, &[studio]) else {
        return Err(Fail::from("names that don't open"));
    };
    let mut names = opening;
    let unsecure = "000003f3";
    assert_refused(&rt, concluded(alloc, &names, PUBLISH_STUDIO)?, unsecure)?;
    let near_only = from_networks(alloc, NEAR_NETWORK, FAR_NETWORK)?;
    replace(&rt, &mut names, 0, &near_only)?;
    assert_refused(&rt, concluded(alloc, &names, PUBLISH_STUDIO)?, unsecure)?;
    assert_not_admitted(&rt, &names, &[REQUEST_STUDIO])
}

/// If an allocation fails, there are no new lists, and the next attempt is unaffected.
#[test]
fn refused_memory_makes_no_new_lists(rt: HostRuntime) -> Result<(), Fail> {
    let alloc = rt.alloc();
    let access = with_keys(alloc)?;
    let mut names = opened(alloc, &["studio", "files"])?;
    let new = match NewAccess::of(alloc, &access) {
        Ok(new) => new,
        Err(_) => NewAccess::of(alloc, &access)?,
    };
    assert!(rt; 0 < names.len());
    names.replace_access(0, new);
    assert_not_admitted(&rt, &names, &[PUBLISH_STUDIO])?;
    assert_admitted(&rt, &names, &[PUBLISH_IN])
}
