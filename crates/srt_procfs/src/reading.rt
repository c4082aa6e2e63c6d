//! The front of a file, read into a place that is lent, and a file that is read whole.

ghost use Rattle.std.specs.Prelude.{◌≡◌, ◌≤◌, ◌⊎◌, ◌++◌, length, take, true, false, IfSome, IfNone};
ghost use Rattle.srt_procfs.specs.Readings.{FileReading, IsOver, IsFront, IsTable, IsUnread, opened};

use crate::files::KernelFiles;

/// As much of a table as is read, in bytes: some 30,000 sockets.
const MAX_TABLE: usize = 4_194_304;

/// How much of a table one read gives at most, in bytes; the kernel gives no more.
const BLOCK: usize = 4096;

/// Reads until the place is full, the file is at its end, or a read fails. Returns the number of bytes, at the front of the place.
fn fill<F: KernelFiles>(files: &F, file: &mut F::File, place: &mut [u8]) -> usize
    ensures within { result ≤ length place.new }
    ensures size { length place.new ≡ length place.old }
    ensures path { (F.reading file.new).path ≡ (F.reading file.old).path }
    ensures text { (F.reading file.new).text ≡ (F.reading file.old).text ++ take result place.new }
    ensures ended { IsOver (F.reading file.new) ⊎ (result ≡ length place.new) }
{
    let mut len = 0;
    while len < place.len() {
        match files.read(file, &mut place[len..]) {
            Some(0) => return len,
            Some(n) => len += n,
            None => return len,
        }
    }
    len
}

/// Reads the front of a file into the place, as much as it holds, and returns its length. `None` if the file can't be opened.
pub(crate) fn read_front<F: KernelFiles>(files: &F, path: &str, place: &mut [u8]) -> Option<usize>
    ensures within { IfSome result (λ len. len ≤ length place.new) }
    ensures size { length place.new ≡ length place.old }
    ensures read { IfSome result (λ len. (file : F.File) × IsFront path.now (length place.new) (take len place.new) (F.reading file)) }
    ensures refused { IfNone result (F.was_refused path.now) }
{
    let mut file = files.open(path)?;
    Some(fill(files, &mut file, place))
}

/// Reads the rest of a file behind the text, up to 4 MiB of text. False if there is no memory for it, or a read fails.
fn gather<F: KernelFiles>(files: &F, file: &mut F::File, text: &mut Vec<u8>) -> bool
    requires begun { (F.reading file.old).text ≡ text.old.items }
    requires within { length text.old.items ≤ 4_194_304 }
    requires sound { (F.reading file.old).has_failed ≡ false }
    ensures path { (F.reading file.new).path ≡ (F.reading file.old).path }
    ensures text { result ≡ true → (F.reading file.new).text ≡ text.new.items }
    ensures read { result ≡ true → (F.reading file.new).has_failed ≡ false }
    ensures ended { result ≡ true → IsOver (F.reading file.new) ⊎ (length text.new.items ≡ 4_194_304) }
    ensures failed { result ≡ false → F.was_full ⊎ ((F.reading file.new).has_failed ≡ true) }
{
    let mut block = [0; BLOCK];
    while text.len() < MAX_TABLE {
        let room = BLOCK.min(MAX_TABLE - text.len());
        match files.read(file, &mut block[..room]) {
            Some(0) => return true,
            Some(n) => {
                if !files.append(text, &block[..n]) {
                    return false;
                }
            }
            None => return false,
        }
    }
    true
}

/// Reads a file that was just opened to its end, at most 4 MiB of it, and allocates room for that. `None` if it can't be read.
fn read_opened<F: KernelFiles + AllocGlobal>(files: &F, mut file: F::File) -> Option<Vec<u8>>
    requires begun { F.reading file ≡ opened (F.reading file).path }
    ensures read { IfSome result (λ text. IsTable F.reading (F.reading file).path 4_194_304 text.items) }
    ensures unread { IfNone result (IsUnread F.reading F.was_refused F.was_full (F.reading file).path) }
{
    let mut text = Vec::new(files.alloc());
    if gather(files, &mut file, &mut text) {
        Some(text)
    } else {
        None
    }
}

/// Reads a table to its end, at most 4 MiB of it, and allocates room for that. `None` if it can't be read.
pub(crate) fn read_table<F: KernelFiles + AllocGlobal>(files: &F, path: &str) -> Option<Vec<u8>>
    ensures read { IfSome result (λ table. IsTable F.reading path.now 4_194_304 table.items) }
    ensures unread { IfNone result (IsUnread F.reading F.was_refused F.was_full path.now) }
{
    let table = files.open(path)?;
    read_opened(files, table)
}

/// Reads the names in a folder, each ended by a NUL, as `read_table` reads a table.
pub(crate) fn read_folder<F: KernelFiles + AllocGlobal>(files: &F, path: &str) -> Option<Vec<u8>>
    ensures read { IfSome result (λ names. IsTable F.reading path.now 4_194_304 names.items) }
    ensures unread { IfNone result (IsUnread F.reading F.was_refused F.was_full path.now) }
{
    let folder = files.open_folder(path)?;
    read_opened(files, folder)
}
