//! Datagrams from addresses that a route doesn't list. The expected counts were worked out from the rules by hand.

use super::datagrams::{SESSION, stray_shutdown};
use super::{ALWAYS, ROUTES, SECRET, comes, entry, named, open_routes};
use crate::{Report, ScriptDatagram, SourceScript, SourceStep, WireScript, pump};
use srt_cookie::Secret;
use srt_samples::shutdown;
use srt_types::{Access, Entry, Network, Peer, RoleAccess};
use std::alloc::Global;
use std::process::Abort;
use std::sync::Wait;
use std::test::Fail;

/// 10.1.2.3
const LISTED: Peer = Peer {
    ip: [0, 0, 0, 0, 0, 0, 0, 0, 0, 0, 0xff, 0xff, 10, 1, 2, 3],
    port: 5000,
};

/// From 10.0.0.0/8 alone, without a key.
fn from_ten(alloc: Global) -> Result<RoleAccess, Fail> {
    let Some(network) = Network::of_prefix(0x0a00_0000, 8) else {
        return Err(Fail::from("a network"));
    };
    let mut from = Vec::new(alloc);
    from.push(network)?;
    Ok(RoleAccess {
        from: Some(from),
        key: None,
        passphrase: None,
    })
}

/// The first route for callers from 10.0.0.0/8, the second for anyone.
fn guarded(alloc: Global) -> Result<[Entry; 2], Fail> {
    let mut first = entry(alloc, &ROUTES[0])?;
    first.access = Access {
        publish: from_ten(alloc)?,
        request: from_ten(alloc)?,
        key_length: None,
    };
    Ok([first, entry(alloc, &ROUTES[1])?])
}

/// Of three datagrams one is for no route, one is a stranger's, and one is from a listed address.
#[test]
fn a_stranger_is_counted_apart(rt: HostRuntime) -> Result<(), Fail> {
    let alloc = rt.alloc();
    let entries = guarded(alloc)?;
    let mut names = named(alloc, &entries, ALWAYS)?;
    let mut routes = open_routes(alloc)?;
    let to_the_first = shutdown().to(SESSION);
    let listed = SourceStep::Datagram(ScriptDatagram {
        peer: LISTED,
        bytes: to_the_first.bytes(alloc)?,
        moment: 1_000_000,
    });
    let steps = vec![in alloc;
        comes(alloc, stray_shutdown())?,
        comes(alloc, to_the_first)?,
        listed,
    ]?;
    let mut source = SourceScript::new(steps);
    let mut wire = WireScript::new(alloc, Vec::new(alloc));
    let report = pump(
        &rt,
        alloc,
        &Secret::new(SECRET),
        &mut names,
        &routes.schedules,
        &mut source,
        &mut wire,
        &mut routes.ends,
        1,
    );
    assert_eq!(&rt;
        report,
        Report {
            read: 3,
            accepted: 1,
            dropped: 2,
            not_allowed: 1,
            ..Report::NOTHING
        }
    );
    Ok(())
}
