//! What Linux tells in `/proc`: whether a signal to stop is pending, how many datagrams the kernel dropped, and what the process uses.
//!
//! It knows nothing of SRT. It keeps nothing between calls and allocates only to read the kernel's table of sockets, its counts of the
//! machine, and the names of the open descriptors.
//!
//! Calls: [`stop_requested`] and [`signals_are_blocked`] (`signals.rt`) read the process's status, [`kernel_drops`]
//! (`drops.rt`) the table of UDP sockets, [`resident_memory`] (`memory.rt`), [`processor_time`],
//! [`start_time`], [`open_descriptors`] and [`most_descriptors`] (`process.rt`) are the process's; each stands on a function of the text
//! that was read (`reading.rt`). [`number_in`] (`numbers.rt`) reads a number in digits. `srt_host` makes these calls.
//!
//! Types: [`KernelFiles`] (`files.rt`), through which all files are read. Calls of the system are noted for contracts alone, in
//! a [`Journal`] of `srt_journal`.
#![tactic(auto)]

mod drops;
mod files;
mod memory;
mod numbers;
mod parts;
mod process;
mod reading;
mod signals;

pub use drops::{drops_in, kernel_drops};
pub use files::{KernelFile, KernelFiles};
pub use memory::{memory_in, resident_memory};
pub use numbers::number_in;
pub use process::{
    most_descriptors, most_descriptors_in, open_descriptors, open_descriptors_in, processor_time,
    processor_time_in, start_in, start_time,
};
pub use signals::{asks_to_stop, blocks_signals, signals_are_blocked, stop_requested};
pub use srt_journal::Journal;

#[cfg(test)]
mod process_tests;
#[cfg(test)]
mod tests;
