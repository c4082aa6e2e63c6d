//! The memory that the process has.

ghost use Rattle.std.specs.Prelude.{◌≡◌, ◌≤◌, None, codes, length, take};
ghost use Rattle.srt_procfs.specs.Readings.{IsTold};
ghost use Rattle.srt_procfs.specs.Memory.{memory_in};

use crate::files::KernelFiles;
use crate::numbers::number_in;
use crate::parts::{behind_key, word_at};
use crate::reading::read_front;
use crate::signals::{MAX_STATUS, STATUS};

/// The key of the memory that is in the machine's memory at present.
const RESIDENT: &[u8] = b"VmRSS:\t";

/// The resident memory of a process with this status, the text of `/proc/PID/status`, in bytes. None if no line has it.
#[tactic(auto, unfolding(crate::specs::Memory::memory_in))]
pub fn memory_in(status: &[u8]) -> Option<u64>
    ensures { result ≡ memory_in status.now }
{
    let kib = number_in(10, word_at(0, behind_key(RESIDENT, status)?)?)?;
    kib.checked_mul(1024)
}

/// The resident memory in the front of this place, of this length, which is a status.
fn resident_in(place: &[u8], len: usize) -> Option<u64>
    requires { len ≤ length place.now }
    ensures { result ≡ memory_in (take len place.now) }
{
    memory_in(&place[..len])
}

/// The resident memory of this process, in bytes. None if it can't be read.
pub fn resident_memory<F: KernelFiles>(files: &F) -> Option<u64>
    ensures { IsTold F.reading F.was_refused (codes "/proc/self/status") 16_384 (result ≡ None) (λ text. result ≡ memory_in text) }
{
    let mut place = [0u8; MAX_STATUS];
    let len = read_front(files, STATUS, &mut place)?;
    resident_in(&place, len)
}
