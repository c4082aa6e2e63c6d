//! What the process uses besides its memory, and when it began.

ghost use Rattle.std.specs.Prelude.{◌≡◌, ◌≤◌, ◌+◌, None, codes, length, take, IfSome};
ghost use Rattle.srt_procfs.specs.Parts.{parts_of};
ghost use Rattle.srt_procfs.specs.Readings.{IsTold};
ghost use Rattle.srt_procfs.specs.Process.{last_part, number_at, processor_time_in, boot_in, start_in};
ghost use Rattle.srt_procfs.specs.Process.{most_descriptors_in, open_descriptors_in, AreOpen, IsStartBy, IsStart};

use crate::files::KernelFiles;
use crate::numbers::number_in;
use crate::parts::{SplitText, behind_key, split_at, word_at};
use crate::reading::{read_folder, read_front, read_table};

/// What the kernel counts of the process, as proc(5) describes it.
const STAT: &str = "/proc/self/stat";

/// The limits of the process.
const LIMITS: &str = "/proc/self/limits";

/// The folder with a name for each of its open descriptors.
const DESCRIPTORS: &str = "/proc/self/fd";

/// What the kernel counts of the machine.
const MACHINE: &str = "/proc/stat";

/// As much of a text about the process as is read, in bytes: more than the kernel writes.
const MAX_TEXT: usize = 4096;

/// The words behind the process's name with the clock ticks in its own code, with those in the kernel's, and with those from the
/// machine's start to its own.
const OWN_TICKS: usize = 11;

const KERNEL_TICKS: usize = 12;

const START_TICKS: usize = 19;

/// The microseconds of a clock tick, which all processors that Linux runs this program on have in common.
const TICK_MICROS: u64 = 10_000;

const SECOND_MICROS: u64 = 1_000_000;

/// The key of the machine's start, in seconds since 1970.
const BOOT: &[u8] = b"btime ";

/// The key of the most descriptors that may be open.
const MOST_DESCRIPTORS: &[u8] = b"Max open files";

/// The parts of a folder's names that are no open descriptors of the process: `.`, `..`, the descriptor by which the folder is read, and
/// what follows the last NUL.
const OTHER_PARTS: usize = 4;

/// The part of a text behind the last byte of this value; the whole text if it has none. Linear in the length.
#[tactic(auto, using(crate::proofs::LastParts::only_part, crate::proofs::LastParts::part_passed))]
fn last_part(separator: u8, text: &[u8]) -> &[u8]
    ensures { result.now ≡ last_part (parts_of separator text.now) }
{
    let mut left = text;
    loop {
        let SplitText { part, rest } = split_at(separator, left);
        match rest {
            Some(rest) => left = rest,
            None => return part,
        }
    }
}

/// How many parts a text has. Linear in the length.
fn parts_in(separator: u8, text: &[u8]) -> usize
    ensures { result ≡ length (parts_of separator text.now) }
{
    let mut left = text;
    let mut before = 0;
    loop {
        let SplitText { rest, .. } = split_at(separator, left);
        before += 1;
        match rest {
            Some(rest) => left = rest,
            None => return before,
        }
    }
}

/// The number in the word at this index behind the process's name.
#[tactic(auto, unfolding(crate::specs::Process::number_at))]
fn number_at(index: usize, stat: &[u8]) -> Option<u64>
    ensures { result ≡ number_at index stat.now }
{
    number_in(10, word_at(index, last_part(b')', stat))?)
}

/// The processor time of a process with this text of `/proc/PID/stat`, in microseconds: that of all its threads since its start, in its own
/// code and in the kernel's. None if the text doesn't have it.
pub fn processor_time_in(stat: &[u8]) -> Option<u64>
    ensures { result ≡ processor_time_in stat.now }
{
    let own = number_at(OWN_TICKS, stat)?;
    let ticks = own.checked_add(number_at(KERNEL_TICKS, stat)?)?;
    ticks.checked_mul(TICK_MICROS)
}

/// The machine's start since 1970 in this text of `/proc/stat`, in microseconds.
#[tactic(auto, unfolding(crate::specs::Process::boot_in))]
fn boot_in(machine: &[u8]) -> Option<u64>
    ensures { result ≡ boot_in machine.now }
{
    let seconds = number_in(10, behind_key(BOOT, machine)?)?;
    seconds.checked_mul(SECOND_MICROS)
}

/// The start of a process with this text of `/proc/PID/stat`, in microseconds since 1970, on a machine with this text of `/proc/stat`. None
/// if the texts don't have it.
pub fn start_in(machine: &[u8], stat: &[u8]) -> Option<u64>
    ensures { result ≡ start_in machine.now stat.now }
{
    let boot = boot_in(machine)?;
    let ticks = number_at(START_TICKS, stat)?;
    boot.checked_add(ticks.checked_mul(TICK_MICROS)?)
}

/// The most descriptors that a process with these limits, the text of `/proc/PID/limits`, may have open. None if no line has it, or if there
/// is no limit.
#[tactic(auto, unfolding(crate::specs::Process::most_descriptors_in))]
pub fn most_descriptors_in(limits: &[u8]) -> Option<u64>
    ensures { result ≡ most_descriptors_in limits.now }
{
    number_in(10, word_at(0, behind_key(MOST_DESCRIPTORS, limits)?)?)
}

/// The open descriptors by the names in `/proc/PID/fd`, each ended by a NUL.
pub fn open_descriptors_in(names: &[u8]) -> u64
    ensures { result ≡ open_descriptors_in names.now }
{
    parts_in(0, names).saturating_sub(OTHER_PARTS) as u64
}

/// The processor time in the front of this place, of this length, which is a text of `/proc/PID/stat`.
fn processor_time_at(place: &[u8], len: usize) -> Option<u64>
    requires { len ≤ length place.now }
    ensures { result ≡ processor_time_in (take len place.now) }
{
    processor_time_in(&place[..len])
}

/// The start in the front of this place, in the same way.
fn start_at(machine: &[u8], place: &[u8], len: usize) -> Option<u64>
    requires { len ≤ length place.now }
    ensures { result ≡ start_in machine.now (take len place.now) }
{
    start_in(machine, &place[..len])
}

/// The most descriptors in the front of this place, in the same way.
fn most_descriptors_at(place: &[u8], len: usize) -> Option<u64>
    requires { len ≤ length place.now }
    ensures { result ≡ most_descriptors_in (take len place.now) }
{
    most_descriptors_in(&place[..len])
}

/// The processor time of all threads of this process since its start, in microseconds. None if it can't be read.
pub fn processor_time<F: KernelFiles>(files: &F) -> Option<u64>
    ensures { IsTold F.reading F.was_refused (codes "/proc/self/stat") 4_096 (result ≡ None) (λ text. result ≡ processor_time_in text) }
{
    let mut place = [0u8; MAX_TEXT];
    let len = read_front(files, STAT, &mut place)?;
    processor_time_at(&place, len)
}

/// The start of this process, on a machine with this text of `/proc/stat`.
fn start_by<F: KernelFiles>(files: &F, machine: &[u8]) -> Option<u64>
    ensures { IsStartBy F.reading F.was_refused machine.now result }
{
    let mut place = [0u8; MAX_TEXT];
    let len = read_front(files, STAT, &mut place)?;
    start_at(machine, &place, len)
}

/// The start of this process, in microseconds since 1970. None if it can't be read. Allocates a copy of the machine's counts while it reads
/// them.
pub fn start_time<F: KernelFiles + AllocGlobal>(files: &F) -> Option<u64>
    ensures { IsStart F.reading F.was_refused F.was_full result }
{
    let machine = read_table(files, MACHINE)?;
    start_by(files, &machine)
}

/// The most descriptors that this process may have open. None if it can't be read, or if there is no limit.
pub fn most_descriptors<F: KernelFiles>(files: &F) -> Option<u64>
    ensures { IsTold F.reading F.was_refused (codes "/proc/self/limits") 4_096 (result ≡ None) (λ text. result ≡ most_descriptors_in text) }
{
    let mut place = [0u8; MAX_TEXT];
    let len = read_front(files, LIMITS, &mut place)?;
    most_descriptors_at(&place, len)
}

/// The descriptors that this process has open. None if they can't be read. Allocates a copy of their names while it reads them.
pub fn open_descriptors<F: KernelFiles + AllocGlobal>(files: &F) -> Option<u64>
    ensures { AreOpen F.reading F.was_refused F.was_full result }
{
    let names = read_folder(files, DESCRIPTORS)?;
    Some(open_descriptors_in(&names))
}
