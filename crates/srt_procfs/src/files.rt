//! The calls of the system at the kernel's files. Each method makes one call, whose effect is trusted, and notes it for contracts
//! alone. Nothing else calls the system: what is generic over the trait is proved to read just these files, and to use what was read.

ghost use Rattle.std.specs.Prelude.{◌≡◌, ◌≤◌, ◌++◌, List, ℕ, length, true, false, IfSome, IfNone, IfOk};
ghost use Rattle.srt_procfs.specs.Readings.{FileReading, opened, after_read, reading_of};

use srt_journal::Journal;
use std::fs::File;
use std::io::{self, Read};
use std::rt::Files;

/// Through what the kernel's files are read, and memory is had for them.
pub trait KernelFiles {
    /// A file that was opened.
    type File: Drop;

    /// What was read of it.
    ghost reading: { Self.File → FileReading };

    /// The file with this path couldn't be opened.
    ghost was_refused: { List ℕ → Type 0 };

    /// There was no memory for a text.
    ghost was_full: { Type 0 };

    /// Opens the file with this path. `None` if it can't be opened.
    fn open(&self, path: &str) -> Option<Self::File>
        ensures opened { IfSome result (λ file. reading file ≡ opened path.now) }
        ensures refused { IfNone result (was_refused path.now) };

    /// Opens the folder with this path, which is read as its names, each ended by a NUL. `None` if it can't be opened.
    fn open_folder(&self, path: &str) -> Option<Self::File>
        ensures opened { IfSome result (λ folder. reading folder ≡ opened path.now) }
        ensures refused { IfNone result (was_refused path.now) };

    /// Reads on, to the front of the place, and returns how many bytes: 0 at the end. `None` if the read fails.
    fn read(&self, file: &mut Self::File, place: &mut [u8]) -> Option<usize>
        ensures size { length place.new ≡ length place.old }
        ensures within { IfSome result (λ n. n ≤ length place.new) }
        ensures noted { reading file.new ≡ after_read (reading file.old) result place.new };

    /// Appends bytes to a text. False, and nothing changes, if there is no memory for them.
    fn append(&self, text: &mut Vec<u8>, bytes: &[u8]) -> bool
        ensures appended { result ≡ true → text.new.items ≡ text.old.items ++ bytes.now }
        ensures full { result ≡ false → was_full };
}

/// Which call a note is of.
const OPENED: u64 = 0;

const READ: u64 = 1;

const READ_FAILED: u64 = 2;

/// An opened file, or a folder.
#[derive(Drop)]
enum Opened {
    File(File),
    Folder(<HostRuntime as Files>::Dir),
}

impl Opened {
    fn read(&mut self, place: &mut [u8]) -> io::Result<usize>
        ensures size { length place.new ≡ length place.old }
        ensures within { IfOk result (λ n. n ≤ length place.new) }
    {
        match self {
            Opened::File(file) => file.read(place),
            Opened::Folder(folder) => folder.read(place),
        }
    }
}

/// A file of this machine's kernel.
#[derive(Drop)]
pub struct KernelFile {
    file: Opened,
    journal: Journal,
}

/// Returns the file with this path, which was just opened.
fn just_opened(path: &str, file: Opened) -> KernelFile
    ensures { reading_of result.journal.notes ≡ opened path.now }
{
    let mut journal = Journal::new();
    journal.note(&[OPENED, 0], path.as_bytes(), &[]);
    KernelFile { file, journal }
}

impl KernelFiles for HostRuntime {
    type File = KernelFile;

    ghost reading = { λ file. reading_of file.journal.notes };

    ghost was_refused = { λ path. Unit {0} };

    ghost was_full = { Unit {0} };

    fn open(&self, path: &str) -> Option<KernelFile> {
        let file = File::open(self, path).ok()?;
        Some(just_opened(path, Opened::File(file)))
    }

    fn open_folder(&self, path: &str) -> Option<KernelFile> {
        let folder = self.open_dir(path).ok()?;
        Some(just_opened(path, Opened::Folder(folder)))
    }

    fn read(&self, file: &mut KernelFile, place: &mut [u8]) -> Option<usize> {
        match file.file.read(place) {
            Ok(n) => {
                file.journal.note(&[READ, n as u64], &[], place);
                Some(n)
            }
            Err(_) => {
                file.journal.note(&[READ_FAILED, 0], &[], place);
                None
            }
        }
    }

    fn append(&self, text: &mut Vec<u8>, bytes: &[u8]) -> bool {
        text.extend_from_slice(bytes).is_ok()
    }
}
