//! The configuration's file: what a watcher needs of it.

use std::fmt::InlineText;

/// The greatest length of a reason why a file can't be read, or of the description of a fault in it, in bytes.
pub const MAX_REASON: usize = 896;

/// What the system reports of a file without its content.
#[derive(Clone, Copy)]
pub struct FileStamp {
    /// When its content or one of its attributes changed last: nanoseconds since 1970, modulo 2^64. Unlike the time of the
    /// last writing, nobody can set it.
    pub changed: u64,
    /// Its size in bytes.
    pub size: u64,
}

/// The file of a configuration, which may change while the gateway runs.
pub trait ConfigFile {
    ghost use Rattle.std.specs.Prelude.{◌≡◌, Option, None, IfOk, IfSome};
    ghost use Rattle.std.specs.Result.{result_map_both};
    ghost use Rattle.srt_watch.specs.Facts.{FileFacts, any_file};
    ghost use Rattle.srt_watch.specs.Files.{FileState};

    /// With which configuration the run began, and what was read since. It may be nothing.
    ghost facts: { FileFacts } = { any_file };

    /// What its calls return, or `None` for a file that doesn't tell.
    ghost says: { Self → Option FileState } = { λ _. None };

    /// Returns its stamp; `None` if that isn't known.
    fn stamp(&self) -> Option<FileStamp>
        ensures { IfSome (says self.now) (λ s. result ≡ s.stamp) };

    /// Returns its content, if it isn't too large for a configuration, or why it can't be read, in words for people. Allocates.
    fn read(&self) -> Result<Vec<u8>, InlineText<MAX_REASON>>
        ensures known { IfOk result (λ content. facts.was_read content.items) }
        ensures says { IfSome (says self.now) (λ s. result_map_both (λ v. v.items) (λ e. e) result ≡ s.content) };
}
