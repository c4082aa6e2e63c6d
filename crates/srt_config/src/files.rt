//! Files, read whole up to a limit.

ghost use Rattle.std.specs.Prelude.{◌≡◌, ◌≢◌, ◌≤◌, ℕ, List, IfOk, IfErr, IfSome, vec_len};
ghost use Rattle.std.specs.IoError.{error_kind};
ghost use Rattle.srt_config.specs.Files.{IsLimit, IsLarger};

use std::alloc::Global;
use std::fs::File;
use std::io::{self, ErrorKind, Read};
use std::rt::Files;
use thiserror::Error;

/// Why a file wasn't read. Its text tells it to a person.
#[derive(Debug, Drop, Error)]
pub enum Unread {
    /// It can't be opened or read, for this reason.
    #[error("{0}")]
    System(io::Error),
    /// It is larger than this number of bytes.
    #[error("larger than {0} bytes")]
    Large(u32),
    /// Memory was refused.
    #[error("out of memory")]
    Memory,
}

impl Unread {
    /// What an error of opening or reading a file means.
    pub fn of_error(error: io::Error) -> Unread
        ensures memory { error_kind error ≡ ErrorKind.OutOfMemory → result ≡ Unread.Memory }
        ensures system { error_kind error ≢ ErrorKind.OutOfMemory → result ≡ Unread.System error }
        ensures reported { (limit : ℕ) → IsLimit limit result }
        ensures larger { (limit : ℕ) (known : List ℕ) → IsLarger limit known result }
    {
        if error.kind() == ErrorKind::OutOfMemory {
            return Unread::Memory;
        }
        Unread::System(error)
    }
}

/// Reads all bytes of a reader, at most `limit`, and allocates room for them. It asks for one byte more, so that it finds
/// out whether there are more: then the result is [`Unread::Large`] with `limit`. If it is known which bytes the reader
/// has, the result is just these, or that they are more than `limit`; or that the reader failed, or memory was refused.
pub fn read_within<R: Read + Drop>(alloc: Global, reader: R, limit: u32) -> Result<Vec<u8>, Unread>
    ensures within { IfOk result (λ bytes. vec_len bytes ≤ limit) }
    ensures whole { IfOk result (λ bytes. IfSome (R.remaining reader) (λ known. bytes.items ≡ known)) }
    ensures reported { IfErr result (IsLimit limit) }
    ensures larger { IfErr result (λ why. IfSome (R.remaining reader) (λ known. IsLarger limit known why)) }
{
    let mut bytes = Vec::new(alloc);
    match reader.take(u64::from(limit) + 1).read_to_end(&mut bytes) {
        Ok(_) => {}
        Err(error) => return Err(Unread::of_error(error)),
    }
    if bytes.len() > limit as usize {
        return Err(Unread::Large(limit));
    }
    Ok(bytes)
}

/// Reads a whole file of at most `limit` bytes, and allocates room for them. At most `limit` + 1 bytes are read.
pub fn read_file(rt: &(impl Files + AllocGlobal), path: &str, limit: u32) -> Result<Vec<u8>, Unread>
    ensures within { IfOk result (λ bytes. vec_len bytes ≤ limit) }
    ensures reported { IfErr result (IsLimit limit) }
{
    match File::open(rt, path) {
        Ok(file) => read_within(rt.alloc(), file, limit),
        Err(error) => Err(Unread::of_error(error)),
    }
}
