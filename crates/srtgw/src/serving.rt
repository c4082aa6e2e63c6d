//! `srtgw serve`: the gateway at a UDP socket, for a number of rounds.

ghost use Rattle.std.specs.Prelude.{◌≡◌, ◌≤◌, IfOk, IfErr};
ghost use Rattle.std.specs.Vec.{vec_len};
ghost use Rattle.srt_offline.specs.declared.faults.OfflineFault.TheVariants.{Memory};
ghost use Rattle.srtgw.specs.declared.faults.Fault.TheVariants.{Offline};
ghost use Rattle.srtgw.specs.Bindings.{IsAtBind};
ghost use Rattle.srtgw.specs.Ends.{IsOfRouting, IsOfServing};

use crate::binding::{Bound, bind};
use crate::clocks::ClockTicker;
use crate::faults::Fault;
use srt_config::Config;
use srt_host::HostClocks;
use srt_offline::OfflineFault;
use srt_poller::{Report, Ungated};
use srt_serve::{Gates, run};
use std::alloc::{AllocError, Global};
use std::net::Net;
use std::sync::Wait;
use std::thread::Threads;
use std::time::Clock;

/// A gate for each worker, which lets every turn pass.
fn workers(alloc: Global, count: u32) -> Result<Vec<Ungated>, AllocError>
    ensures { IfOk result (λ gates. vec_len gates ≡ count) }
{
    vec![in alloc; Ungated; count as usize]
}

/// A gate for the polling thread and one for each worker, which let every turn pass.
pub fn gates(alloc: Global, count: u32) -> Result<Gates<Ungated>, Fault>
    ensures count { IfOk result (λ gates. vec_len gates.workers ≡ count) }
    ensures memory { IfErr result (λ fault. fault ≡ Offline Memory) }
{
    match workers(alloc, count) {
        Ok(workers) => Ok(Gates {
            poller: Some(Ungated),
            workers,
        }),
        Err(_) => Err(Fault::Offline(OfflineFault::Memory)),
    }
}

/// Serves the routes of a configuration at its socket for this number of rounds.
fn serve_bound<R: AllocGlobal + Clock + HostClocks + Threads + Wait + Sync>(
    rt: &R,
    config: &Config,
    bound: &mut Bound<'_, R>,
    gates: Gates<Ungated>,
    rounds: u32,
) -> Result<Report, Fault>
    requires at { IsAtBind config.now.bind bound.old.source bound.old.wire }
    requires start { R.was_instant bound.old.start }
    requires workers { (1 ≤ vec_len gates.workers) × (vec_len gates.workers ≤ 16) }
    ensures { IfErr result IsOfRouting }
{
    match run(
        rt,
        rt.alloc(),
        &config.secret,
        config.entries.as_slice(),
        config.schedules.as_slice(),
        &mut bound.source,
        &mut bound.wire,
        ClockTicker::new(rt, bound.start),
        gates,
        rounds,
    ) {
        Ok(ran) => Ok(ran.report),
        Err(fault) => Err(Fault::Run(fault)),
    }
}

/// Serves the routes of a configuration for this number of rounds of the poller, and returns its report. Routes open
/// and close in the rounds of their schedules. Binds the UDP socket; starts a ticking thread and `workers` worker
/// threads; the calling thread polls the socket. Errors: `Bind`, that of memory and `Run`, before anything was read; but
/// `RunFault::Busy` comes at the end. docs/OPERATING.md says how long a round is.
pub fn serve<R: AllocGlobal + Net + Clock + HostClocks + Threads + Wait + Sync>(
    rt: &R,
    config: &Config,
    rounds: u32,
) -> Result<Report, Fault>
    ensures { IfErr result IsOfServing }
{
    let mut bound = match bind(rt, config) {
        Ok(bound) => bound,
        Err(fault) => return Err(Fault::Bind(fault)),
    };
    let gates = gates(rt.alloc(), config.workers)?;
    serve_bound(rt, config, &mut bound, gates, rounds)
}
