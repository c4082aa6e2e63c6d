//! Signals that ask the process to stop: SIGINT and SIGTERM.
//!
//! A program can't take a signal. But one that was started with both blocked (as by `env --block-signal`) goes on when
//! they are sent, and they stay pending, which its status shows.

ghost use Rattle.std.specs.Prelude.{◌≡◌, ◌≤◌, false, codes, length, take};
ghost use Rattle.srt_procfs.specs.Readings.{IsTold};
ghost use Rattle.srt_procfs.specs.Signals.{mask_in, has_either, asks_to_stop, blocks_signals};

use crate::files::KernelFiles;
use crate::numbers::number_in;
use crate::parts::behind_key;
use crate::reading::read_front;

/// The process's status, as proc(5) describes it.
pub(crate) const STATUS: &str = "/proc/self/status";

/// As much of the status as is read, in bytes: more than the kernel writes before the masks of signals, which follow
/// the memory.
pub(crate) const MAX_STATUS: usize = 16_384;

/// The key of the signals that are pending for the process.
const PROCESS_PENDING: &[u8] = b"ShdPnd:\t";

/// The key of the signals that are pending for its main thread.
const THREAD_PENDING: &[u8] = b"SigPnd:\t";

/// The key of the signals that its main thread blocks.
const BLOCKED: &[u8] = b"SigBlk:\t";

/// SIGINT (2) in a mask of signals: signal n is bit n - 1.
const INTERRUPT: u64 = 0x2;

/// SIGTERM (15).
const TERMINATE: u64 = 0x4000;

/// The mask in the first line that begins with this key. None if there is none, or it isn't hexadecimal.
#[tactic(auto, unfolding(crate::specs::Signals::mask_in))]
fn mask_in(key: &[u8], status: &[u8]) -> Option<u64>
    ensures { result ≡ mask_in key.now status.now }
{
    number_in(16, behind_key(key, status)?)
}

/// Whether a mask has one signal or both; false for no mask.
fn has_either(mask: Option<u64>) -> bool
    ensures { result ≡ has_either mask }
{
    match mask {
        Some(mask) => mask / INTERRUPT % 2 == 1 || mask / TERMINATE % 2 == 1,
        None => false,
    }
}

/// Whether a process with this status, the text of `/proc/PID/status`, has SIGINT or SIGTERM pending. A mask that can't
/// be read has no signal.
pub fn asks_to_stop(status: &[u8]) -> bool
    ensures { result ≡ asks_to_stop status.now }
{
    has_either(mask_in(PROCESS_PENDING, status)) || has_either(mask_in(THREAD_PENDING, status))
}

/// Whether a process with this status blocks both SIGINT and SIGTERM. False if the mask can't be read.
pub fn blocks_signals(status: &[u8]) -> bool
    ensures { result ≡ blocks_signals status.now }
{
    match mask_in(BLOCKED, status) {
        Some(mask) => mask / INTERRUPT % 2 == 1 && mask / TERMINATE % 2 == 1,
        None => false,
    }
}

/// Whether the front of this place, of this length, is a status with SIGINT or SIGTERM pending.
fn asked_in(place: &[u8], len: usize) -> bool
    requires { len ≤ length place.now }
    ensures { result ≡ asks_to_stop (take len place.now) }
{
    asks_to_stop(&place[..len])
}

/// Whether the front of this place, of this length, is a status that blocks both SIGINT and SIGTERM.
fn blocked_in(place: &[u8], len: usize) -> bool
    requires { len ≤ length place.now }
    ensures { result ≡ blocks_signals (take len place.now) }
{
    blocks_signals(&place[..len])
}

/// Whether SIGINT or SIGTERM is pending for this process. False if that can't be read. It reads a file of the kernel's,
/// some 50 microseconds, and doesn't allocate.
pub fn stop_requested<F: KernelFiles>(files: &F) -> bool
    ensures { IsTold F.reading F.was_refused (codes "/proc/self/status") 16_384 (result ≡ false) (λ text. result ≡ asks_to_stop text) }
{
    let mut place = [0u8; MAX_STATUS];
    match read_front(files, STATUS, &mut place) {
        Some(len) => asked_in(&place, len),
        None => false,
    }
}

/// Whether SIGINT and SIGTERM are both blocked, so that [`stop_requested`] can see them. If they aren't, either ends the
/// process at once. False if that can't be read.
pub fn signals_are_blocked<F: KernelFiles>(files: &F) -> bool
    ensures { IsTold F.reading F.was_refused (codes "/proc/self/status") 16_384 (result ≡ false) (λ text. result ≡ blocks_signals text) }
{
    let mut place = [0u8; MAX_STATUS];
    let status = read_front(files, STATUS, &mut place);
    match status {
        Some(len) => blocked_in(&place, len),
        None => false,
    }
}
