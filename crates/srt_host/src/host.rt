//! The machine and the configuration's file, as a watcher uses them.

ghost use Rattle.std.specs.Prelude.{◌≡◌, None, codes, IfSome};
ghost use Rattle.srt_procfs.specs.Drops.{AreDrops};
ghost use Rattle.srt_procfs.specs.Process.{processor_time_in, most_descriptors_in, AreOpen, IsStart};
ghost use Rattle.srt_procfs.specs.Readings.{IsTold};
ghost use Rattle.srt_host.specs.Times.{nanos_of};

use crate::clock::Since;
use crate::socket::ServedSocket;
use crate::times::time_now;
use srt_config::{BindAddress, read_configuration};
use srt_procfs::{
    KernelFiles, kernel_drops, most_descriptors, open_descriptors, processor_time, resident_memory,
    start_time, stop_requested,
};
use srt_status::ProcessUse;
use srt_watch::{ConfigFile, FileStamp, MAX_REASON, Machine};
use std::fmt::InlineText;
use std::fs::{Metadata, metadata};
use std::os::unix::fs::MetadataExt;
use std::rt::Files;
use std::thread;
use std::time::{Clock, Duration};

/// The time that a watcher sleeps between two polls, in milliseconds.
const REST_MS: u64 = 20;

/// The time between two polls of the status page's connections, in milliseconds.
const PAUSE_MS: u64 = 1;

/// The machine that the gateway runs on.
#[derive(Drop)]
pub struct Host<'a, R> {
    rt: &'a R,
    since: Since<'a, R>,
    bind: BindAddress,
    receive_buffer: Option<u64>,
    // the start of the process, in microseconds since 1970
    began: Option<u64>,
}

impl<'a, R: Clock + KernelFiles + AllocGlobal> Host<'a, R> {
    ghost use Rattle.srt_host.specs.Clock.{start_of, last_of};
    ghost use Rattle.srt_host.specs.Hosts.{bind_of, since_of, buffer_of, began_of};

    /// Returns the machine of a gateway with this socket, which is at this address.
    pub fn new(rt: &'a R, socket: ServedSocket, bind: BindAddress) -> Host<'a, R>
        ensures start { (start_of (since_of result) ≡ socket.start) × (last_of (since_of result) ≡ 0) }
        ensures bind { bind_of result ≡ bind }
        ensures buffer { buffer_of result ≡ socket.receive_buffer }
        ensures began { IsStart R.reading R.was_refused R.was_full (began_of result) }
    {
        Host {
            rt,
            since: Since::new(rt, socket.start),
            bind,
            receive_buffer: socket.receive_buffer,
            began: start_time(rt),
        }
    }
}

/// How many datagrams the kernel dropped at the socket that is bound at this address.
fn drops_at<F: KernelFiles + AllocGlobal>(files: &F, bind: BindAddress) -> Option<u64>
    ensures { AreDrops F.reading F.was_refused F.was_full bind.ip bind.port result }
{
    kernel_drops(files, bind.ip, bind.port)
}

/// What the process uses, if it began at this time.
fn process_use<F: KernelFiles + AllocGlobal>(files: &F, began: Option<u64>) -> ProcessUse
    ensures processor { IsTold F.reading F.was_refused (codes "/proc/self/stat") 4_096
        (result.cpu_micros ≡ None) (λ text. result.cpu_micros ≡ processor_time_in text) }
    ensures open { AreOpen F.reading F.was_refused F.was_full result.open_descriptors }
    ensures most { IsTold F.reading F.was_refused (codes "/proc/self/limits") 4_096
        (result.most_descriptors ≡ None) (λ text. result.most_descriptors ≡ most_descriptors_in text) }
    ensures began { result.started_micros ≡ began }
{
    ProcessUse {
        cpu_micros: processor_time(files),
        open_descriptors: open_descriptors(files),
        most_descriptors: most_descriptors(files),
        started_micros: began,
    }
}

impl Machine for Host<'_, HostRuntime> {
    fn rest(&self) {
        thread::sleep(self.rt, Duration::from_millis(REST_MS));
    }

    fn pause(&self) {
        thread::sleep(self.rt, Duration::from_millis(PAUSE_MS));
    }

    fn moment(&mut self) -> u64 {
        self.since.moment()
    }

    fn time(&self) -> u64 {
        time_now(self.rt)
    }

    fn stop_requested(&self) -> bool {
        stop_requested(self.rt)
    }

    fn memory(&self) -> Option<u64> {
        resident_memory(self.rt)
    }

    fn drops(&self) -> Option<u64> {
        drops_at(self.rt, self.bind)
    }

    fn process(&self) -> ProcessUse {
        process_use(self.rt, self.began)
    }

    fn receive_buffer(&self) -> Option<u64> {
        self.receive_buffer
    }
}

/// The configuration's file.
#[derive(Drop)]
pub struct HostFile<'a, R> {
    rt: &'a R,
    path: &'a str,
}

/// Whether a pipe or a device is at this path: its bytes can be read only once, and a read may wait forever.
fn is_pipe_at(rt: &impl Files, path: &str) -> bool {
    match metadata(rt, path) {
        Ok(found) => !found.is_file() && !found.is_dir(),
        Err(_) => false,
    }
}

impl<'a, R: Files> HostFile<'a, R> {
    ghost use Rattle.srt_host.specs.Hosts.{path_of};

    /// Returns the file at this path; `None` if it is a pipe or a device, which can't be followed.
    pub fn at(rt: &'a R, path: &'a str) -> Option<HostFile<'a, R>>
        ensures { IfSome result (λ file. path_of file ≡ path.now) }
    {
        if is_pipe_at(rt, path) {
            return None;
        }
        Some(HostFile { rt, path })
    }
}

/// Returns the nanoseconds of this many seconds, and of these behind them, modulo 2^64. A number below 0 counts as 0.
fn nanos_of(seconds: i64, nanos: i64) -> u64
    ensures { result ≡ nanos_of seconds nanos }
{
    let whole = u64::try_from(seconds).unwrap_or(0);
    let rest = u64::try_from(nanos).unwrap_or(0);
    whole.wrapping_mul(1_000_000_000).wrapping_add(rest)
}

/// Returns the time of the last change of a file's content or attributes, in nanoseconds since 1970, modulo 2^64. A time
/// before 1970 counts as 0.
fn changed_at(file: &Metadata) -> u64 {
    nanos_of(file.ctime(), file.ctime_nsec())
}

impl ConfigFile for HostFile<'_, HostRuntime> {
    fn stamp(&self) -> Option<FileStamp> {
        let found = metadata(self.rt, self.path).ok()?;
        Some(FileStamp {
            changed: changed_at(&found),
            size: found.len(),
        })
    }

    fn read(&self) -> Result<Vec<u8>, InlineText<MAX_REASON>> {
        if is_pipe_at(self.rt, self.path) {
            return Err(InlineText::of("it is a pipe or a device"));
        }
        match read_configuration(self.rt, self.path) {
            Ok(content) => Ok(content),
            Err(unread) => Err(InlineText::of(unread)),
        }
    }
}
