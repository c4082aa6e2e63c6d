//! Standard error as a writer of text that never waits for whoever reads it.

use crate::held_text::{HeldText, MAX_KEPT, MAX_WRITTEN};
use libc::net::poll;
use libc::types::pollfd;
use std::alloc::{AllocError, Global};
use std::io::{self, Error, ErrorKind, Write};
use std::str;

/// The descriptor of standard error.
const STANDARD_ERROR: i32 = 2;

/// What `poll` asks of a descriptor: whether a write to it wouldn't wait (POLLOUT).
const WRITABLE: i16 = 4;

/// The most writes of held text in a row.
const MAX_WRITES: usize = MAX_KEPT / MAX_WRITTEN;

/// Standard error. Text that can't be written at once, since nobody reads it, or since it has more than 4,096 bytes, is held,
/// at most 65,536 bytes, and written later, in order; a text for which there is no room is refused with `WouldBlock`, so that
/// the caller can count it. So a log that stands still stops nobody.
#[derive(Drop)]
pub struct Errors<'a, R> {
    rt: &'a R,
    held: HeldText,
}

/// Whether standard error takes a write of at most 4,096 bytes without a wait. One of which that isn't known does.
fn is_ready() -> bool {
    let mut asked = [pollfd {
        fd: STANDARD_ERROR,
        events: WRITABLE,
        revents: 0,
    }];
    poll(&mut asked, 0) != 0
}

impl<'a, R: Eprint> Errors<'a, R> {
    ghost use Rattle.std.specs.Prelude.{◌≡◌, true, false, drop, [], IfOk};
    ghost use Rattle.srt_host.specs.Held.{waiting_in, IsRest, IsPut, IsRefused};

    /// Returns standard error of this host. Allocates room for text that waits; the only error is out of memory.
    pub fn open(rt: &'a R, alloc: Global) -> Result<Errors<'a, R>, AllocError>
        ensures { IfOk result (λ errors. waiting_in errors ≡ []) }
    {
        let held = HeldText::open(alloc)?;
        Ok(Errors { rt, held })
    }

    // Writes the oldest bytes that wait. What isn't text, or can't be written, is left out.
    fn write_next(&mut self)
        ensures { waiting_in self.new ≡ drop 4096 (waiting_in self.old) }
    {
        let next = self.held.next();
        if let Ok(text) = str::from_utf8(next) {
            let _ = self.rt.eprint(text);
        }
        let count = next.len();
        self.held.took(count);
    }

    // Writes what waits, as much as standard error takes now.
    fn write_held(&mut self)
        ensures { IsRest (waiting_in self.old) (waiting_in self.new) }
    {
        for _ in 0..MAX_WRITES {
            if self.held.is_empty() || !is_ready() {
                return;
            }
            self.write_next();
        }
    }

    // Writes a text, or lets it wait behind what waits. False if there is no room for all of it.
    fn put(&mut self, text: &str) -> io::Result<bool>
        ensures put { IfOk result (λ is_put. is_put ≡ true → IsPut text.now self.old self.new) }
        ensures refused { IfOk result (λ is_put. is_put ≡ false → IsRefused text.now self.old self.new) }
    {
        self.write_held();
        let bytes = text.as_bytes();
        if bytes.len() <= MAX_WRITTEN && self.held.is_empty() && is_ready() {
            self.rt.eprint(text)?;
            return Ok(true);
        }
        Ok(self.held.hold(bytes))
    }
}

impl<R: Eprint> Write for Errors<'_, R> {
    fn write(&mut self, bytes: &[u8]) -> io::Result<usize> {
        let Ok(text) = str::from_utf8(bytes) else {
            return Err(Error::from(ErrorKind::InvalidData));
        };
        if self.put(text)? {
            return Ok(bytes.len());
        }
        Err(Error::from(ErrorKind::WouldBlock))
    }

    /// Writes what waits, as much as standard error takes now. `WouldBlock` while some of it waits on.
    fn flush(&mut self) -> io::Result<()> {
        self.write_held();
        if self.held.is_empty() {
            Ok(())
        } else {
            Err(Error::from(ErrorKind::WouldBlock))
        }
    }
}
