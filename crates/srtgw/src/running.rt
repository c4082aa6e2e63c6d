//! `srtgw run`: the gateway at a UDP socket, until it is told to stop.

ghost use Rattle.std.specs.Prelude.{◌≡◌, ◌≤◌, ◌^◌, OnOk, IfErr};
ghost use Rattle.std.specs.Vec.{vec_len};
ghost use Rattle.srt_host.specs.Clock.{start_of};
ghost use Rattle.srtgw.specs.Bindings.{IsAtBind, IsOfRun};
ghost use Rattle.srtgw.specs.Clocks.{ticked_by};
ghost use Rattle.srtgw.specs.Ends.{IsOfServing};
ghost use Rattle.srtgw.specs.Reports.{HasReported};

use crate::binding::{Bound, bind_explained};
use crate::clocks::ClockTicker;
use crate::faults::Fault;
use crate::printing::write_end;
use crate::serving::gates;
use srt_command_line::Manner;
use srt_config::Config;
use srt_cookie::Secret;
use srt_explain::Explained;
use srt_host::{HostClocks, HostWatcher, ServedSocket, open_watcher, time_now};
use srt_offline::OfflineFault;
use srt_poller::Ungated;
use srt_serve::{Crew, Gates, RunFault, RunPlan, Watched, run_until};
use std::io::Write;
use std::net::Net;
use std::rt::Clock;
use std::sync::Wait;
use std::thread::Threads;

/// The most rounds of `run`: at one a microsecond they last nine years.
const MAX_RUN_ROUNDS: u64 = 1 << 48;

/// Says on standard error why the routes weren't served.
fn explain_run(rt: &impl Eprint, path: &str, fault: RunFault) {
    let why = match fault {
        RunFault::OutOfMemory => {
            "out of memory for the routes: a smaller buffer, inbox or outbox, or fewer sessions, need less"
        }
        RunFault::Thread => "a thread can't be started, or isn't running after ten seconds",
        RunFault::Busy =>
            "the final counters of a route aren't known, since another thread still has it",
    };
    let _ = eprintln!(rt; "srtgw: {path}: {why}");
}

/// Ends the log of a run, and writes the report and an account of each route.
fn tell_end<'a, R: Clock, W: Write>(
    out: &mut W,
    watched: Watched<ClockTicker<'a, R>, HostWatcher<'_>>,
) -> Result<(), Fault>
    ensures { OnOk result (HasReported (W.contents out.old) (W.contents out.new)) }
{
    let Watched {
        report,
        accounts,
        mut watch,
        ..
    } = watched;
    watch.end();
    match write_end(out, &watch, &report, &accounts) {
        Ok(()) => Ok(()),
        Err(_) => Err(Fault::Offline(OfflineFault::Output)),
    }
}

/// Returns the plan of a run of a configuration, with this secret.
fn plan_of<'a>(config: &'a Config, secret: &'a Secret) -> RunPlan<'a>
    ensures secret { result.secret.now ≡ secret.now }
    ensures routes { (result.entries.now ≡ config.now.entries.items) × (result.schedules.now ≡ config.now.schedules.items) }
    ensures rounds { result.rounds ≡ 2 ^ 48 }
{
    RunPlan {
        secret,
        entries: config.entries.as_slice(),
        schedules: config.schedules.as_slice(),
        rounds: MAX_RUN_ROUNDS,
    }
}

/// Runs this plan at this socket. It is the one call of a run.
fn run_planned<'a, 'b, R>(
    rt: &R,
    config: &Config,
    plan: RunPlan<'_>,
    bound: &mut Bound<'_, R>,
    crew: Crew<ClockTicker<'a, R>, Ungated, HostWatcher<'b>>,
) -> Result<Watched<ClockTicker<'a, R>, HostWatcher<'b>>, RunFault>
where
    R: AllocGlobal + Clock + HostClocks + Threads + Wait + Sync,
    requires secret { IsOfRun R.was_time config.now.secret plan.secret.now }
    requires routes { (plan.entries.now ≡ config.now.entries.items) × (plan.schedules.now ≡ config.now.schedules.items) }
    requires rounds { plan.rounds ≡ 2 ^ 48 }
    requires at { IsAtBind config.now.bind bound.old.source bound.old.wire }
    requires start { R.was_instant bound.old.start × (start_of (ticked_by crew.ticker) ≡ bound.old.start) }
    requires workers { (1 ≤ vec_len crew.gates.workers) × (vec_len crew.gates.workers ≤ 16) }
{
    run_until(
        rt,
        rt.alloc(),
        plan,
        &mut bound.source,
        &mut bound.wire,
        crew,
    )
}

/// Returns the secret of a run that starts now.
fn secret_now<R: HostClocks>(rt: &R, config: &Config) -> Secret
    ensures { IsOfRun R.was_time config.now.secret result }
{
    config.secret.of_run(time_now(rt))
}

/// Runs the gateway at this socket with this watcher.
fn run_watched<'a, 'b, R>(
    rt: &'a R,
    config: &Config,
    bound: &mut Bound<'_, R>,
    gates: Gates<Ungated>,
    watcher: HostWatcher<'b>,
) -> Result<Watched<ClockTicker<'a, R>, HostWatcher<'b>>, RunFault>
where
    R: AllocGlobal + Clock + HostClocks + Threads + Wait + Sync,
    requires at { IsAtBind config.now.bind bound.old.source bound.old.wire }
    requires start { R.was_instant bound.old.start }
    requires workers { (1 ≤ vec_len gates.workers) × (vec_len gates.workers ≤ 16) }
{
    let secret = secret_now(rt, config);
    let crew = Crew {
        ticker: ClockTicker::new(rt, bound.start),
        gates,
        watch: watcher,
    };
    run_planned(rt, config, plan_of(config, &secret), bound, crew)
}

/// Opens the watcher of a run at this socket, whose watching thread asks `machine`.
fn watcher_of<'b, R: Clock>(
    machine: &'b HostRuntime,
    path: &'b str,
    explained: &'b Explained,
    manner: Manner,
    bound: &Bound<'_, R>,
) -> Result<HostWatcher<'b>, Fault>
    ensures { IfErr result IsOfServing }
{
    let socket = ServedSocket {
        start: bound.start,
        address: bound.source.address(),
        receive_buffer: match bound.source.receive_buffer() {
            Some(bytes) => Some(u64::from(bytes)),
            None => None,
        },
    };
    match open_watcher(machine, path, explained, manner, socket) {
        Ok(watcher) => Ok(watcher),
        Err(fault) => Err(Fault::of_watcher(fault)),
    }
}

/// Binds the sockets of an explained configuration, and runs the gateway there until it is told to stop. Standard error gets why it
/// didn't run.
fn ran<'b, R>(
    rt: &'b R,
    machine: &'b HostRuntime,
    path: &'b str,
    explained: &'b Explained,
    manner: Manner,
) -> Result<Watched<ClockTicker<'b, R>, HostWatcher<'b>>, Fault>
where
    R: Eprint + AllocGlobal + Net + Clock + HostClocks + Threads + Wait + Sync,
    ensures { IfErr result IsOfServing }
{
    let config = &explained.config;
    let mut bound = bind_explained(rt, config)?;
    let gates = gates(rt.alloc(), config.workers)?;
    let watcher = watcher_of(machine, path, explained, manner, &bound)?;
    match run_watched(rt, config, &mut bound, gates, watcher) {
        Ok(watched) => Ok(watched),
        Err(fault) => {
            explain_run(rt, path, fault);
            Err(Fault::Run(fault))
        }
    }
}

/// Serves the routes of an explained configuration until SIGINT or SIGTERM is pending or its time is over, and tells a
/// log on standard error what happens. Then every route is closed, and what is left is sent, for a second at most.
/// Writes the report and an account of each route to `out`. `path` is that of the configuration. The watcher, which has a thread
/// of its own, asks `machine`. Errors: those of the sockets, of memory and of the run, before anything is written, and an output that
/// can't be written.
pub fn run_gateway<R, W>(
    rt: &R,
    machine: &HostRuntime,
    out: &mut W,
    path: &str,
    explained: &Explained,
    manner: Manner,
) -> Result<(), Fault>
where
    R: Eprint + AllocGlobal + Net + Clock + HostClocks + Threads + Wait + Sync,
    W: Write,
    ensures { OnOk result (HasReported (W.contents out.old) (W.contents out.new)) }
{
    let watched = ran(rt, machine, path, explained, manner)?;
    tell_end(out, watched)
}
