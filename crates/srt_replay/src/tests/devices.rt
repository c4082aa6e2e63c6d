//! Readers and writers that are interrupted, return few bytes at a time, or fail.

ghost use Rattle.std.specs.Prelude.{◌≡◌, ◌≤◌, length};

use std::io::{self, Error, ErrorKind, Read, Write};

/// Returns its bytes one at a time, is interrupted before each, and fails at the end if it is set to.
#[derive(Drop)]
pub(super) struct Dripping<'a> {
    pub(super) bytes: &'a [u8],
    pub(super) is_ready: bool,
    pub(super) fails: bool,
}

impl Read for Dripping<'_> {
    fn read(&mut self, buf: &mut [u8]) -> io::Result<usize> {
        if !self.is_ready {
            self.is_ready = true;
            return Err(Error::from(ErrorKind::Interrupted));
        }
        self.is_ready = false;
        if buf.is_empty() {
            return Ok(0);
        }
        if self.bytes.is_empty() {
            if self.fails {
                return Err(Error::from(ErrorKind::Other));
            }
            return Ok(0);
        }
        buf[0] = self.bytes[0];
        self.bytes = &self.bytes[1..];
        Ok(1)
    }
}

/// Returns the same line this number of times.
#[derive(Drop)]
pub(super) struct Repeating<'a> {
    pub(super) line: &'a [u8],
    pub(super) at: usize,
    pub(super) times: u32,
}

impl Read for Repeating<'_> {
    fn read(&mut self, buf: &mut [u8]) -> io::Result<usize> {
        if self.at >= self.line.len() {
            self.at = 0;
            self.times = self.times.saturating_sub(1);
        }
        if self.times == 0 || self.at >= self.line.len() {
            return Ok(0);
        }
        let rest = &self.line[self.at..];
        let n = if rest.len() < buf.len() {
            rest.len()
        } else {
            buf.len()
        };
        buf[..n].copy_from_slice(&rest[..n]);
        self.at += n;
        Ok(n)
    }
}

/// Returns its bytes, and then is interrupted forever.
#[derive(Drop)]
pub(super) struct Stuck<'a> {
    pub(super) bytes: &'a [u8],
}

impl Read for Stuck<'_> {
    fn read(&mut self, buf: &mut [u8]) -> io::Result<usize> {
        if self.bytes.is_empty() {
            return Err(Error::from(ErrorKind::Interrupted));
        }
        let n = if self.bytes.len() < buf.len() {
            self.bytes.len()
        } else {
            buf.len()
        };
        buf[..n].copy_from_slice(&self.bytes[..n]);
        self.bytes = &self.bytes[n..];
        Ok(n)
    }
}

/// Returns at most 16 bytes at a time. The read after this number of them fails, and so do those after it.
#[derive(Drop)]
pub(super) struct Breaking<'a> {
    pub(super) bytes: &'a [u8],
    pub(super) reads: u32,
}

impl Read for Breaking<'_> {
    fn read(&mut self, buf: &mut [u8]) -> io::Result<usize> {
        if self.reads == 0 {
            return Err(Error::from(ErrorKind::Other));
        }
        self.reads -= 1;
        let n = self.bytes.len().min(buf.len()).min(16);
        buf[..n].copy_from_slice(&self.bytes[..n]);
        self.bytes = &self.bytes[n..];
        Ok(n)
    }
}

/// Takes at most four bytes at a time. The call after this number of them, a write or a flush, fails, and so do those
/// after it.
#[derive(Drop)]
pub(super) struct Failing {
    pub(super) taken: Vec<u8>,
    pub(super) calls: u32,
    /// The number of calls that failed.
    pub(super) failed: u32,
}

impl Failing {
    fn may_call(&mut self) -> bool {
        if self.calls == 0 {
            self.failed = self.failed.saturating_add(1);
            return false;
        }
        self.calls -= 1;
        true
    }
}

impl Write for Failing {
    fn write(&mut self, buf: &[u8]) -> io::Result<usize> {
        if !self.may_call() {
            return Err(Error::from(ErrorKind::Other));
        }
        let n = buf.len().min(4);
        self.taken.extend_from_slice(&buf[..n])?;
        Ok(n)
    }

    fn flush(&mut self) -> io::Result<()> {
        if !self.may_call() {
            return Err(Error::from(ErrorKind::Other));
        }
        Ok(())
    }
}

/// Takes bytes one at a time, is interrupted before each, and takes none once its room is used up. Its flushes are
/// interrupted this many times, and then succeed, or fail if it is set to.
#[derive(Drop)]
pub(super) struct Narrow {
    pub(super) taken: Vec<u8>,
    pub(super) room: usize,
    pub(super) is_ready: bool,
    pub(super) flushes: u32,
    pub(super) interruptions: u32,
    pub(super) flush_fails: bool,
}

impl Write for Narrow {
    fn write(&mut self, buf: &[u8]) -> io::Result<usize> {
        if !self.is_ready {
            self.is_ready = true;
            return Err(Error::from(ErrorKind::Interrupted));
        }
        self.is_ready = false;
        if buf.is_empty() || self.room == 0 {
            return Ok(0);
        }
        self.room -= 1;
        self.taken.push(buf[0])?;
        Ok(1)
    }

    fn flush(&mut self) -> io::Result<()> {
        if self.interruptions > 0 {
            self.interruptions -= 1;
            return Err(Error::from(ErrorKind::Interrupted));
        }
        self.flushes = self.flushes.saturating_add(1);
        if self.flush_fails {
            return Err(Error::from(ErrorKind::Other));
        }
        Ok(())
    }
}
