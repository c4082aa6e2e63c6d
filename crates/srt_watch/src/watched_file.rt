//! The configuration's file: when it is polled, and what is new in it.

ghost use Rattle.std.specs.Prelude.{◌≡◌, IfOk, IfSome, None, Some, true, option_map};
ghost use Rattle.std.specs.Result.{result_map_both};
ghost use Rattle.srt_watch.specs.Holding.{WasHeld};
ghost use Rattle.srt_watch.specs.WatchedFile.{differs, is_other, is_settling, next_phase, no_poll, reads, after_poll};
ghost use Rattle.srt_watch.specs.Polls.{seen_of, first_polling, is_again, reads_at, stamped, is_new_read, after_read, rested};
ghost use Rattle.srt_watch.specs.Polls.{newness, after_news, held, news_in, after_found, news_of, after_look};

use crate::config_file::{ConfigFile, FileStamp, MAX_REASON};
use std::fmt::InlineText;
use std::mem;

/// The time between two polls of the configuration's file, in microseconds.
const FILE_POLL: u64 = 1_000_000;

/// The time from a poll that finds the file changed to the next one, in microseconds. Its writer has to be done by then.
const SETTLING: u64 = 50_000;

/// The time for which a content is held that would close a route with sessions, in microseconds.
const HOLDING: u64 = 5_000_000;

// Whether a file may have another content than at the poll before.
fn differs(before: Option<FileStamp>, now: FileStamp) -> bool
    ensures { result ≡ differs before now }
{
    match before {
        Some(before) => before.changed != now.changed || before.size != now.size,
        None => true,
    }
}

/// The state of a file since it was found changed.
#[derive(Clone, Copy)]
pub(crate) enum Phase {
    /// It differed from the poll before: its writer may still be at work.
    Settling,
    /// It was the same at two polls, and was read at the second one.
    Read,
    /// It was read once more.
    Known,
}

// Returns the phase after a poll that finds the file unchanged.
fn next_phase(phase: Phase) -> Phase
    ensures { result ≡ next_phase phase }
{
    match phase {
        Phase::Settling => Phase::Read,
        Phase::Read | Phase::Known => Phase::Known,
    }
}

/// The last poll of a file.
#[derive(Clone, Copy)]
pub(crate) struct LastPoll {
    // what the system reported of it
    stamp: Option<FileStamp>,
    phase: Phase,
}

impl LastPoll {
    /// Before the first poll.
    pub(crate) fn none() -> LastPoll
        ensures { result ≡ no_poll }
    {
        LastPoll {
            stamp: None,
            phase: Phase::Known,
        }
    }

    /// Whether the file was found changed and isn't read yet, so that it is to be polled again soon.
    pub(crate) fn is_settling(&self) -> bool
        ensures { result ≡ is_settling self.now }
    {
        matches!(self.phase, Phase::Settling)
    }

    /// Whether the file is to be read, by its stamp now. A file that differs from the last poll isn't read, since it may be
    /// half written. It is read if it is the same at the next poll, and once more at the poll after that: a file that is
    /// written twice within the unit of the system's times may appear unchanged. Without a stamp it is read, so that reading
    /// returns the reason.
    pub(crate) fn reads(&mut self, stamp: Option<FileStamp>) -> bool
        ensures result { result ≡ reads self.old stamp }
        ensures new { self.new ≡ after_poll self.old stamp }
    {
        let before = *self;
        self.stamp = stamp;
        let Some(now) = stamp else {
            self.phase = Phase::Known;
            return true;
        };
        if differs(before.stamp, now) {
            self.phase = Phase::Settling;
            return false;
        }
        self.phase = next_phase(before.phase);
        !matches!(before.phase, Phase::Known)
    }
}

// Whether this content differs from the last one, if there was one.
fn is_other(last: Option<&Vec<u8>>, content: &[u8]) -> bool
    ensures { result ≡ is_other (option_map (λ v. v.now.items) last.entry) content.now }
{
    match last {
        Some(last) => last.as_slice() != content,
        None => true,
    }
}

/// When a file is polled next, and what its polls found.
#[derive(Clone, Copy)]
pub(crate) struct Polling {
    // the time of the next poll
    next: u64,
    last: LastPoll,
    // a fault of reading was returned, and no content since
    is_unread: bool,
    // the time from which on the content that was returned last is news once more
    again_at: Option<u64>,
}

impl Polling {
    // Returns that of a file that is first polled a second later.
    fn new() -> Polling
        ensures { result ≡ first_polling }
    {
        Polling {
            next: FILE_POLL,
            last: LastPoll::none(),
            is_unread: false,
            again_at: None,
        }
    }

    // Whether the content that was returned last is news once more.
    fn is_again(&self, moment: u64) -> bool
        ensures { result ≡ is_again self.now moment }
    {
        match self.again_at {
            Some(again_at) => again_at <= moment,
            None => false,
        }
    }

    // Whether the file is to be read, by its stamp now: if it has changed and settled, or if its content is to be news once
    // more and nobody writes it.
    fn reads(&mut self, moment: u64, stamp: Option<FileStamp>) -> bool
        ensures result { result ≡ reads_at self.old moment stamp }
        ensures new { self.new ≡ stamped self.old stamp }
    {
        let is_changed = self.last.reads(stamp);
        is_changed | (self.is_again(moment) & !self.last.is_settling())
    }

    // Notes whether reading failed. Returns whether that is new: a fault is new once.
    fn note_read(&mut self, is_unread: bool) -> bool
        ensures result { result ≡ is_new_read self.old is_unread }
        ensures new { self.new ≡ after_read self.old is_unread }
    {
        let was_unread = mem::replace(&mut self.is_unread, is_unread);
        !(was_unread & is_unread)
    }

    // Sets the time of the next poll: soon, while the file settles.
    fn rest(&mut self, moment: u64)
        ensures { self.new ≡ rested self.old moment }
    {
        let rest = if self.last.is_settling() {
            SETTLING
        } else {
            FILE_POLL
        };
        self.next = moment.saturating_add(rest);
    }

    // Whether a content is news, which is another one than that before or not: `Some` of whether it was held.
    fn news(&mut self, moment: u64, is_other: bool) -> Option<bool>
        ensures result { result ≡ newness self.old moment is_other }
        ensures new { self.new ≡ after_news self.old moment is_other }
    {
        if is_other {
            self.again_at = None;
            return Some(false);
        }
        if !self.is_again(moment) {
            return None;
        }
        self.again_at = None;
        Some(true)
    }

    // Makes the content that was returned last news once more, five seconds after this time.
    fn hold(&mut self, moment: u64)
        ensures { self.new ≡ held self.old moment }
    {
        self.again_at = Some(moment.saturating_add(HOLDING));
    }
}

/// A new content of a file.
#[derive(Drop)]
pub(crate) struct News {
    pub content: Vec<u8>,
    /// Whether it was held (`hold`): five seconds before it was the same.
    pub was_held: bool,
}

/// A file, and what its polls found.
#[derive(Drop)]
pub(crate) struct WatchedFile<F: Drop> {
    file: F,
    polling: Polling,
    // the content that was returned last
    content: Option<Vec<u8>>,
}

impl<F: ConfigFile + Drop> WatchedFile<F> {
    /// Returns a file that is first polled a second later.
    pub(crate) fn new(file: F) -> WatchedFile<F>
        ensures file { result.file ≡ file }
        ensures polling { result.polling ≡ first_polling }
        ensures content { result.content ≡ None }
    {
        WatchedFile {
            file,
            polling: Polling::new(),
            content: None,
        }
    }

    // Returns what was read, if it is news.
    fn news_of(
        &mut self,
        moment: u64,
        read: Result<Vec<u8>, InlineText<MAX_REASON>>,
    ) -> Option<Result<News, InlineText<MAX_REASON>>>
        requires { IfOk read (λ content. F.facts.was_read content.items) }
        ensures known { IfSome result (λ found. IfOk found (λ news. F.facts.was_read news.content.items)) }
        ensures file { self.new.file ≡ self.old.file }
        ensures content { self.new.content ≡ self.old.content }
        ensures held { IfSome result (λ found. IfOk found (λ news. news.was_held ≡ true →
            WasHeld self.old.polling moment (option_map (λ v. v.items) self.old.content) news.content.items)) }
        ensures news { option_map seen_of result
            ≡ news_in self.old.polling moment (option_map (λ v. v.items) self.old.content) (Some (result_map_both (λ v. v.items) (λ e. e) read)) }
        ensures polling { self.new.polling
            ≡ after_found self.old.polling moment (option_map (λ v. v.items) self.old.content) (Some (result_map_both (λ v. v.items) (λ e. e) read)) }
    {
        match read {
            Ok(content) => {
                let is_other = is_other(self.content.as_ref(), content.as_slice());
                let was_held = self.polling.news(moment, is_other)?;
                Some(Ok(News { content, was_held }))
            }
            Err(why) => Some(Err(why)),
        }
    }

    /// Polls the file, once a second, and sooner while it may be half written. Returns its content, or why it can't be
    /// read. None if nothing is new: it may be half written, its content is the one that was kept, and isn't held for five
    /// seconds, or the fault was returned before. Allocates its content.
    pub(crate) fn poll(&mut self, moment: u64) -> Option<Result<News, InlineText<MAX_REASON>>>
        ensures known { IfSome result (λ found. IfOk found (λ news. F.facts.was_read news.content.items)) }
        ensures file { self.new.file ≡ self.old.file }
        ensures content { self.new.content ≡ self.old.content }
        ensures held { IfSome result (λ found. IfOk found (λ news. news.was_held ≡ true →
            WasHeld self.old.polling moment (option_map (λ v. v.items) self.old.content) news.content.items)) }
        ensures news { IfSome (F.says self.old.file) (λ s. option_map seen_of result
            ≡ news_of self.old.polling moment (option_map (λ v. v.items) self.old.content) s) }
        ensures polling { IfSome (F.says self.old.file) (λ s. self.new.polling
            ≡ after_look self.old.polling moment (option_map (λ v. v.items) self.old.content) s) }
    {
        if moment < self.polling.next {
            return None;
        }
        let stamp = self.file.stamp();
        let is_read = self.polling.reads(moment, stamp);
        self.polling.rest(moment);
        if !is_read {
            return None;
        }
        let read = self.file.read();
        if !self.polling.note_read(read.is_err()) {
            return None;
        }
        self.news_of(moment, read)
    }

    /// Keeps a content that was returned: it is no longer new.
    pub(crate) fn keep(&mut self, content: Vec<u8>)
        ensures content { self.new.content ≡ Some content }
        ensures polling { self.new.polling ≡ self.old.polling }
        ensures file { self.new.file ≡ self.old.file }
    {
        self.content = Some(content);
    }

    /// Returns the content that was kept once more, if it is the same five seconds after this time.
    pub(crate) fn hold(&mut self, moment: u64)
        ensures content { self.new.content ≡ self.old.content }
        ensures polling { self.new.polling ≡ held self.old.polling moment }
        ensures file { self.new.file ≡ self.old.file }
    {
        self.polling.hold(moment);
    }
}
