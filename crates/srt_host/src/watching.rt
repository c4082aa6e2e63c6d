//! The watcher of a gateway that runs on this machine.

ghost use Rattle.std.specs.Prelude.{◌≡◌, false, codes, map, [], None, IfOk, OnOk, IfSome};
ghost use Rattle.srt_procfs.specs.Readings.{IsTold};
ghost use Rattle.srt_procfs.specs.Signals.{blocks_signals};
ghost use Rattle.srt_types.specs.Terms.{terms_of};
ghost use Rattle.srt_explain.specs.Texts.{line_for};
ghost use Rattle.srt_explain.specs.Warnings.{names_missing_key};
ghost use Rattle.srt_watch.specs.FirstRoutes.{HasOpened};
ghost use Rattle.srt_watch.specs.Requests.{config_of};
ghost use Rattle.srt_host.specs.Hosts.{path_of};
ghost use Rattle.srt_host.specs.Pages.{IsPageAt};
ghost use Rattle.srt_host.specs.Watching.{HasMachine, HasForm, Begins, AreFirstRoutes, AreWarnings, TellsOne};

use crate::address::{served_at, socket_address};
use crate::errors::Errors;
use crate::hints::bind_hint;
use crate::host::{Host, HostFile};
use crate::socket::ServedSocket;
use crate::status_page::StatusPage;
use srt_command_line::{Manner, VERSION};
use srt_config::{BindAddress, Config};
use srt_explain::{Explained, Warning};
use srt_procfs::{KernelFiles, signals_are_blocked};
use srt_watch::{LogForm, Outlets, Start, Watcher};
use std::io::ErrorKind;

/// A watcher over this machine.
pub type HostWatcher<'a> = Watcher<
    'a,
    Host<'a, HostRuntime>,
    Errors<'a, HostRuntime>,
    StatusPage,
    HostFile<'a, HostRuntime>,
>;

/// Why there is no watcher.
#[derive(Clone, Copy, Debug, PartialEq, Eq)]
pub enum WatcherFault {
    /// The status page's address can't be bound: the system's number of the error, if it has one. Standard error has its
    /// text.
    Page(Option<i32>),
    /// Out of memory.
    OutOfMemory,
}

/// Binds the address of the status page, if the configuration has one. Prints on standard error why it can't be bound.
pub fn open_page(machine: &HostRuntime, config: &Config) -> Result<StatusPage, WatcherFault>
    ensures { IfOk result (λ page. IsPageAt config.now.status page) }
{
    match StatusPage::bind(machine, machine.alloc(), config.status) {
        Ok(page) => Ok(page),
        Err(error) if error.kind() == ErrorKind::OutOfMemory => Err(WatcherFault::OutOfMemory),
        Err(error) => {
            if let Some(address) = config.status {
                let hint = bind_hint(error.kind(), address.port);
                let address = socket_address(address);
                let _ = eprintln!(machine; "srtgw: status page at {address}: {error}{hint}");
            }
            Err(WatcherFault::Page(error.raw_os_error()))
        }
    }
}

/// Returns the form of the log.
fn form_of(manner: Manner) -> LogForm
    ensures { (result.is_timed ≡ manner.is_timed) × (result.is_json ≡ manner.is_json) }
{
    LogForm {
        is_timed: manner.is_timed,
        is_json: manner.is_json,
    }
}

/// Returns the facts that the log and the page show of a run's beginning.
fn beginning<F: KernelFiles>(
    machine: &F,
    served: BindAddress,
    workers: u32,
    manner: Manner,
) -> Start
    ensures address { (result.ip ≡ served.ip) × (result.port ≡ served.port) }
    ensures manner { (result.workers ≡ workers) × (result.lasts ≡ manner.lasts) }
    ensures signals { IsTold F.reading F.was_refused (codes "/proc/self/status") 16_384
        (result.is_blocked ≡ false) (λ text. result.is_blocked ≡ blocks_signals text) }
{
    let ip = served.ip;
    Start {
        ip,
        port: served.port,
        workers,
        is_blocked: signals_are_blocked(machine),
        lasts: manner.lasts,
        version: VERSION,
    }
}

/// Lets the watcher follow the configuration's file, unless it is a pipe or a device.
fn follow_file<'a>(
    machine: &'a HostRuntime,
    path: &'a str,
    config: &'a Config,
    watcher: &mut HostWatcher<'a>,
) -> Result<(), WatcherFault>
    requires { watcher.old.following ≡ None }
    ensures file { OnOk result (IfSome watcher.new.following (λ f. (config_of f.in_force ≡ config.now) × (path_of f.file.file ≡ path.now))) }
    ensures first { watcher.new.first_lines ≡ watcher.old.first_lines }
    ensures machine { watcher.new.machine ≡ watcher.old.machine }
    ensures others { (watcher.new.routes ≡ watcher.old.routes) × (watcher.new.form ≡ watcher.old.form) × (watcher.new.page ≡ watcher.old.page) }
{
    let Some(file) = HostFile::at(machine, path) else {
        return Ok(());
    };
    match watcher.follow(config, file) {
        Ok(()) => Ok(()),
        Err(_) => Err(WatcherFault::OutOfMemory),
    }
}

/// Lets the watcher log a warning about the configuration, unless it is about a missing key.
fn warn_of(
    explained: &Explained,
    warning: Warning,
    watcher: &mut HostWatcher<'_>,
) -> Result<(), WatcherFault>
    ensures told { OnOk result (TellsOne (names_missing_key warning) (line_for (map terms_of explained.now.config.entries.items) warning)
        watcher.old.first_lines.warnings.items watcher.new.first_lines.warnings.items) }
    ensures start { watcher.new.first_lines.start ≡ watcher.old.first_lines.start }
    ensures machine { watcher.new.machine ≡ watcher.old.machine }
    ensures others { (watcher.new.routes ≡ watcher.old.routes) × (watcher.new.following ≡ watcher.old.following)
        × (watcher.new.form ≡ watcher.old.form) × (watcher.new.page ≡ watcher.old.page) }
{
    if warning.names_missing_key() {
        return Ok(());
    }
    match watcher.warn(explained.text_of(warning)) {
        Ok(()) => Ok(()),
        Err(_) => Err(WatcherFault::OutOfMemory),
    }
}

/// Lets the watcher log the warnings about the configuration, except those about missing keys, which `check --explain` prints.
#[tactic(auto, using(crate::proofs::Warned::none_told, crate::proofs::Warned::one_more))]
fn warn_all(explained: &Explained, watcher: &mut HostWatcher<'_>) -> Result<(), WatcherFault>
    requires { watcher.old.first_lines.warnings.items ≡ [] }
    ensures told { OnOk result (AreWarnings (map terms_of explained.now.config.entries.items) explained.now.warnings.items
        watcher.new.first_lines.warnings.items) }
    ensures start { watcher.new.first_lines.start ≡ watcher.old.first_lines.start }
    ensures machine { watcher.new.machine ≡ watcher.old.machine }
    ensures others { (watcher.new.routes ≡ watcher.old.routes) × (watcher.new.following ≡ watcher.old.following)
        × (watcher.new.form ≡ watcher.old.form) × (watcher.new.page ≡ watcher.old.page) }
{
    for at in 0..explained.warnings.len() {
        warn_of(explained, explained.warnings[at], watcher)?;
    }
    Ok(())
}

/// Opens a watcher of the routes of a configuration on this machine, which shows its status at this page.
fn opened<'a>(
    machine: &'a HostRuntime,
    config: &Config,
    manner: Manner,
    host: Host<'a, HostRuntime>,
    served: BindAddress,
    page: StatusPage,
) -> Result<HostWatcher<'a>, WatcherFault>
    ensures machine { IfOk result (λ w. w.machine ≡ host.entry) }
    ensures outlets { IfOk result (λ w. (w.page.server ≡ page) × HasForm manner w.form) }
    ensures begins { IfOk result (λ w. Begins served None config.now.workers manner w.first_lines.start) }
    ensures silent { IfOk result (λ w. (w.first_lines.warnings.items ≡ []) × (w.following ≡ None)) }
    ensures routes { IfOk result (λ w. HasOpened (map terms_of config.now.entries.items) w.routes) }
{
    let Ok(errors) = Errors::open(machine, machine.alloc()) else {
        return Err(WatcherFault::OutOfMemory);
    };
    let outlets = Outlets {
        log: errors,
        form: form_of(manner),
        page,
    };
    match Watcher::open(
        machine.alloc(),
        host,
        outlets,
        config.entries.as_slice(),
        beginning(machine, served, config.workers, manner),
    ) {
        Ok(watcher) => Ok(watcher),
        Err(_) => Err(WatcherFault::OutOfMemory),
    }
}

/// Opens the watcher of a run with this socket, which is bound at the address of the configuration. It expects the routes on
/// air that the configuration expects so, follows its file, which is at `path`, and logs the warnings about it after its first
/// line. Binds the status page's address. Allocates some kilobytes for each route.
pub fn open_watcher<'a>(
    machine: &'a HostRuntime,
    path: &'a str,
    explained: &'a Explained,
    manner: Manner,
    socket: ServedSocket,
) -> Result<HostWatcher<'a>, WatcherFault>
    ensures machine { IfOk result (λ w. HasMachine explained.now.config.bind socket w.machine) }
    ensures page { IfOk result (λ w. IsPageAt explained.now.config.status w.page.server) }
    ensures form { IfOk result (λ w. HasForm manner w.form) }
    ensures begins { IfOk result
        (λ w. Begins explained.now.config.bind socket.address explained.now.config.workers manner w.first_lines.start) }
    ensures routes { IfOk result
        (λ w. AreFirstRoutes (map terms_of explained.now.config.entries.items) explained.now.config.expected.items w.routes) }
    ensures file { IfOk result
        (λ w. IfSome w.following (λ f. (config_of f.in_force ≡ explained.now.config) × (path_of f.file.file ≡ path.now))) }
    ensures warnings { IfOk result (λ w. AreWarnings (map terms_of explained.now.config.entries.items) explained.now.warnings.items
        w.first_lines.warnings.items) }
{
    let config = &explained.config;
    let served = served_at(config.bind, socket.address);
    let page = open_page(machine, config)?;
    let host = Host::new(machine, socket, served);
    let mut watcher = opened(machine, config, manner, host, served, page)?;
    watcher.expect(config.expected.as_slice());
    follow_file(machine, path, config, &mut watcher)?;
    warn_all(explained, &mut watcher)?;
    Ok(watcher)
}
