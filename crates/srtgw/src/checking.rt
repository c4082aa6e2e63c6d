//! `srtgw check CONFIG --addresses`: whether a configuration's addresses can be bound.

ghost use Rattle.std.specs.Prelude.{◌≡◌, IfOk, length};
ghost use Rattle.std.specs.Io.KnownBytes.{Appends};
ghost use Rattle.srt_host.specs.Pages.{IsPageAt};
ghost use Rattle.srt_offline.specs.Configurations.{routes_line};
ghost use Rattle.srtgw.specs.Bindings.{IsAtBind};
ghost use Rattle.srtgw.specs.Ends.{offline_end};

use crate::binding::{Bound, bind_explained};
use crate::faults::Fault;
use srt_config::Config;
use srt_host::{HostClocks, StatusPage, open_page};
use srt_offline::{OfflineFault, checked_at, write_routes};
use std::io::Write;
use std::net::Net;
use std::rt::{Clock, Files};

/// The sockets of a configuration, bound once.
#[derive(Drop)]
struct Sockets<'a, R: Clock> {
    /// The gateway's UDP socket.
    bound: Bound<'a, R>,
    /// The status page; without an address it has no socket.
    page: StatusPage,
}

/// Binds both addresses of a configuration, one after the other, as `run` does. Standard error gets why one can't be bound, also if none
/// can.
fn bind_both<'a, R>(
    rt: &'a R,
    machine: &HostRuntime,
    config: &Config,
) -> Result<Sockets<'a, R>, Fault>
where
    R: Eprint + AllocGlobal + Net + Clock + HostClocks,
    ensures at { IfOk result (λ sockets. IsAtBind config.now.bind sockets.bound.source sockets.bound.wire) }
    ensures page { IfOk result (λ sockets. IsPageAt config.now.status sockets.page) }
{
    let bound = bind_explained(rt, config);
    let page = open_page(machine, config);
    let bound = bound?;
    match page {
        Ok(page) => Ok(Sockets { bound, page }),
        Err(fault) => Err(Fault::of_watcher(fault)),
    }
}

/// A configuration and its sockets, bound once.
#[derive(Drop)]
pub struct Tried<'a, R: Clock> {
    /// The configuration.
    pub config: Config,
    /// The gateway's UDP socket.
    pub bound: Bound<'a, R>,
    /// The status page; without an address it has no socket.
    pub page: StatusPage,
}

/// Reads a configuration's file as `check` does, and binds its addresses once. Standard error gets why one can't be bound.
fn tried_at<'a, R>(
    rt: &'a R,
    machine: &HostRuntime,
    path: &str,
    explains: bool,
) -> Result<Tried<'a, R>, Fault>
where
    R: Eprint + Files + AllocGlobal + Net + Clock + HostClocks,
    ensures at { IfOk result (λ tried. IsAtBind tried.config.bind tried.bound.source tried.bound.wire) }
    ensures page { IfOk result (λ tried. IsPageAt tried.config.status tried.page) }
{
    let config = match checked_at(rt, path, explains) {
        Ok(config) => config,
        Err(fault) => return Err(Fault::Offline(fault)),
    };
    let Sockets { bound, page } = bind_both(rt, machine, &config)?;
    Ok(Tried {
        config,
        bound,
        page,
    })
}

/// How a command ended that opens no socket.
pub fn offline(ended: Result<(), OfflineFault>) -> Result<(), Fault>
    ensures { result ≡ offline_end ended }
{
    match ended {
        Ok(()) => Ok(()),
        Err(fault) => Err(Fault::Offline(fault)),
    }
}

/// `srtgw check CONFIG --addresses`: reads the configuration as `check` does, binds its addresses once, and writes the number of its
/// routes as one line. Returns what was bound. The program without sockets doesn't do it.
pub fn check_addresses<'a, R, W>(
    rt: &'a R,
    machine: &HostRuntime,
    out: &mut W,
    path: &str,
    explains: bool,
) -> Result<Tried<'a, R>, Fault>
where
    R: Eprint + Files + AllocGlobal + Net + Clock + HostClocks,
    W: Write,
    ensures at { IfOk result (λ tried. IsAtBind tried.config.bind tried.bound.source tried.bound.wire) }
    ensures page { IfOk result (λ tried. IsPageAt tried.config.status tried.page) }
    ensures printed { IfOk result
        (λ tried. Appends (W.contents out.old) (W.contents out.new) (routes_line (length tried.config.entries.items))) }
{
    let tried = tried_at(rt, machine, path, explains)?;
    match write_routes(out, &tried.config) {
        Ok(()) => Ok(tried),
        Err(_) => Err(Fault::Offline(OfflineFault::Output)),
    }
}
