//! Why a conclusion is refused with 1002. The test vectors follow from the rules of lists and keys.

use crate::{Names, refusal_cause};
use srt_samples::{Block, Caller, HSREQ, conclusion};
use srt_types::{Access, Entry, Network, NotAdmitted, Peer, Role, RoleAccess};
use std::alloc::Global;
use std::process::Abort;
use std::test::Fail;

const CALLER: Caller = Caller {
    id: 1,
    initial: 5,
    mtu: 1500,
    window: 8192,
    cookie: 0,
};

/// An address of the network of publishers.
const NEAR: [u8; 4] = [10, 1, 2, 3];

/// An address outside it.
const FAR: [u8; 4] = [192, 0, 2, 7];

fn peer(ip: [u8; 4]) -> Peer {
    Peer {
        ip: [
            0, 0, 0, 0, 0, 0, 0, 0, 0, 0, 0xff, 0xff, ip[0], ip[1], ip[2], ip[3],
        ],
        port: 5000,
    }
}

/// The network 10.0.0.0/8.
fn network() -> Result<Network, Fail> {
    match Network::of_prefix(0x0a00_0000, 8) {
        Some(network) => Ok(network),
        None => Err(Fail::from("no network")),
    }
}

/// Returns rules that admit publishers from 10.0.0.0/8 with the key `in`, and subscribers from anywhere with the key
/// `out`.
fn guarded(alloc: Global) -> Result<Access, Fail> {
    let mut from = Vec::new(alloc);
    from.push(network()?)?;
    Ok(Access {
        publish: RoleAccess {
            from: Some(from),
            key: Some(String::from_str(alloc, "in")?),
            passphrase: None,
        },
        request: RoleAccess {
            from: None,
            key: Some(String::from_str(alloc, "out")?),
            passphrase: None,
        },
        key_length: None,
    })
}

fn entry(alloc: Global, name: &str, access: Access) -> Result<Entry, Fail> {
    let mut entry = super::entry(alloc, name)?;
    entry.access = access;
    Ok(entry)
}

/// Returns the names `studio`, with these rules, and `open`, without rules.
fn names(alloc: Global) -> Result<Names, Fail> {
    let mut entries = Vec::new(alloc);
    entries.push(entry(alloc, "studio", guarded(alloc)?)?)?;
    entries.push(entry(alloc, "open", Access::anyone())?)?;
    match Names::open(alloc, &entries) {
        Ok(names) => Ok(names),
        Err(_) => Err(Fail::from("names that don't open")),
    }
}

/// Asserts why a caller with this Stream ID is refused.
fn assert_cause(
    rt: &(impl AllocGlobal + Abort),
    ip: [u8; 4],
    stream_id: &str,
    cause: Option<NotAdmitted>,
) -> Result<(), Fail> {
    let blocks = [HSREQ, Block::StreamId(stream_id)];
    let datagram = conclusion(CALLER, &blocks).bytes(rt.alloc())?;
    let found = refusal_cause(&names(rt.alloc())?, peer(ip), &datagram);
    assert_eq!(rt; found, cause, "{stream_id}");
    Ok(())
}

#[test]
fn a_stranger_is_distinguished_from_one_without_a_key(rt: HostRuntime) -> Result<(), Fail> {
    let list = Some(NotAdmitted::Address(Role::Publish));
    let key = Some(NotAdmitted::Key(Role::Publish));
    assert_cause(&rt, FAR, "#!::r=studio,m=publish,k=in", list)?;
    assert_cause(&rt, NEAR, "#!::r=studio,m=publish", key)?;
    assert_cause(&rt, NEAR, "#!::r=studio,m=publish,k=out", key)?;
    assert_cause(&rt, NEAR, "#!::r=studio,m=publish,k=in", None)
}

#[test]
fn each_role_has_its_own_list_and_key(rt: HostRuntime) -> Result<(), Fail> {
    let key = Some(NotAdmitted::Key(Role::Request));
    assert_cause(&rt, FAR, "#!::r=studio,m=request,k=in", key)?;
    assert_cause(&rt, FAR, "studio", key)?;
    assert_cause(&rt, FAR, "#!::r=studio,m=request,k=out", None)?;
    assert_cause(&rt, FAR, "#!::r=open,m=publish", None)
}

#[test]
fn an_unknown_name_is_distinguished_from_none(rt: HostRuntime) -> Result<(), Fail> {
    let unknown = Some(NotAdmitted::UnknownName);
    assert_cause(&rt, FAR, "#!::r=studi,m=publish,k=in", unknown)?;
    assert_cause(&rt, FAR, "#!::m=publish", Some(NotAdmitted::NoName))?;
    let alone = [HSREQ];
    let datagram = conclusion(CALLER, &alone).bytes(rt.alloc())?;
    let found = refusal_cause(&names(rt.alloc())?, peer(NEAR), &datagram);
    assert_eq!(rt; found, Some(NotAdmitted::NoName));
    Ok(())
}

/// A conclusion that is refused for another reason, here a missing HSREQ, has no such cause.
#[test]
fn another_reason_comes_first(rt: HostRuntime) -> Result<(), Fail> {
    let blocks = [Block::StreamId("#!::r=studi,m=publish")];
    let datagram = conclusion(CALLER, &blocks).bytes(rt.alloc())?;
    let found = refusal_cause(&names(rt.alloc())?, peer(NEAR), &datagram);
    assert_eq!(rt; found, None);
    Ok(())
}
