//! The gateway's UDP socket, at the address of its configuration.

ghost use Rattle.std.specs.Prelude.{◌≡◌, IfOk, IfErr};
ghost use Rattle.srtgw.specs.Bindings.{IsAtBind};
ghost use Rattle.srtgw.specs.Ends.{IsOfServing};

use crate::clocks::ClockPoller;
use crate::faults::Fault;
use srt_config::Config;
use srt_host::{HostClocks, bind_hint, socket_address};
use srt_poller::{BindFault, MioSource, MioWire};
use std::io;
use std::net::Net;
use std::time::{Clock, Instant};

/// The gateway's UDP socket: what arrives at it, what is sent from it, and the moment 0 of both. Without a clock there is
/// no such moment.
#[derive(Drop)]
pub struct Bound<'a, R: Clock> {
    /// What arrives.
    pub source: MioSource<ClockPoller<'a, R>>,
    /// What is sent.
    pub wire: MioWire,
    /// The moment 0.
    pub start: Option<Instant>,
}

/// Binds the UDP socket of a configuration, at its address. The moment 0 of its datagrams is now.
pub fn bind<'a, R: AllocGlobal + Net + Clock + HostClocks>(
    rt: &'a R,
    config: &Config,
) -> Result<Bound<'a, R>, BindFault>
    ensures at { IfOk result (λ bound. IsAtBind config.now.bind bound.source bound.wire) }
    ensures start { IfOk result (λ bound. R.was_instant bound.start) }
{
    let start = rt.instant();
    let address = socket_address(config.bind);
    match MioSource::bind(rt, rt.alloc(), address, ClockPoller::new(rt, start)) {
        Ok((source, wire)) => Ok(Bound {
            source,
            wire,
            start,
        }),
        Err(fault) => Err(fault),
    }
}

/// Says on standard error why no socket was bound.
fn explain_bind(rt: &impl Eprint, config: &Config, fault: BindFault) {
    let address = socket_address(config.bind);
    let _ = match fault {
        BindFault::Socket(Some(number)) => {
            let why = io::Error::from_raw_os_error(number);
            let hint = bind_hint(why.kind(), config.bind.port);
            eprintln!(rt; "srtgw: {address}: {why}{hint}")
        }
        BindFault::Socket(None) => eprintln!(rt; "srtgw: {address}: the socket can't be used"),
        BindFault::OutOfMemory => eprintln!(rt; "srtgw: {address}: out of memory"),
    };
}

/// Binds the UDP socket of a configuration. Standard error gets why there is none.
pub fn bind_explained<'a, R>(rt: &'a R, config: &Config) -> Result<Bound<'a, R>, Fault>
where
    R: Eprint + AllocGlobal + Net + Clock + HostClocks,
    ensures at { IfOk result (λ bound. IsAtBind config.now.bind bound.source bound.wire) }
    ensures start { IfOk result (λ bound. R.was_instant bound.start) }
    ensures fault { IfErr result IsOfServing }
{
    match bind(rt, config) {
        Ok(bound) => Ok(bound),
        Err(fault) => {
            explain_bind(rt, config, fault);
            Err(Fault::Bind(fault))
        }
    }
}
