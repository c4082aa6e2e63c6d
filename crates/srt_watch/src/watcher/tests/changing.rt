//! A watcher that follows a configuration's file, over a file in memory that says something else at each look.

use super::{CALLER, NOTHING, Watching, assert_lines, start, watcher};
use crate::indexes::{megabytes_of, reaches_mark};
use crate::watched_file::LastPoll;
use crate::{ConfigFile, FileStamp, MAX_REASON};
use srt_config::{Config, read_config};
use srt_status::ChangeCounts;
use srt_supervision::{ChangeFault, ChangeRoutes, Order, RouteChanges, Watch};
use srt_types::Role;
use std::alloc::{AllocError, Global};
use std::cell::Cell;
use std::fmt::InlineText;
use std::process::Abort;
use std::test::Fail;

/// The keys above the routes.
pub(super) const HEAD: &str =
    "secret = \"000102030405060708090a0b0c0d0e0f101112131415161718191a1b1c1d1e1f\"\nbind = \"127.0.0.1:9000\"\nworkers = 2\n";

/// The same with three other values.
pub(super) const OTHER_HEAD: &str =
    "secret = \"000102030405060708090a0b0c0d0e0f101112131415161718191a1b1c1d1e1e\"\nbind = \"127.0.0.1:9001\"\nworkers = 3\n";

/// Routes; the second `studio` has another latency, the third a key that is none.
pub(super) const STUDIO: &str =
    "[[route]]\nname = \"studio\"\nmode = \"live\"\nlatency_ms = 120\nbuffer = 1024\nsessions = 2\ninbox = 16\noutbox = 136\n";

const SLOW_STUDIO: &str =
    "[[route]]\nname = \"studio\"\nmode = \"live\"\nlatency_ms = 200\nbuffer = 1024\nsessions = 2\ninbox = 16\noutbox = 136\n";

const WRONG_STUDIO: &str =
    "[[route]]\nname = \"studio\"\nmode = \"live\"\nlatency_ms = 120\nbuffer = 1024\nsessions = 40\ninbox = 16\noutbox = 136\n";

const GUARDED_STUDIO: &str =
    "[[route]]\nname = \"studio\"\nmode = \"live\"\nlatency_ms = 120\nbuffer = 1024\nsessions = 2\ninbox = 16\noutbox = 136\npublish_from = [\"192.0.2.0/24\"]\npublish_key = \"put-a-key-of-your-own-here\"\n";

pub(super) const NEWS: &str =
    "[[route]]\nname = \"news\"\nmode = \"live\"\nlatency_ms = 120\nbuffer = 1024\nsessions = 2\ninbox = 16\noutbox = 136\n";

const GUEST: &str =
    "[[route]]\nname = \"guest\"\nmode = \"live\"\nlatency_ms = 120\nbuffer = 1024\nsessions = 2\ninbox = 16\noutbox = 136\n";

/// A file that says each of these texts at two looks, and then the next one; one without parts can't be read.
#[derive(Drop)]
pub(super) struct Written {
    alloc: Global,
    texts: &'static [&'static [&'static str]],
    looks: Cell<usize>,
}

fn text(alloc: Global, parts: &[&'static str]) -> Result<Vec<u8>, AllocError> {
    let mut text = Vec::new(alloc);
    for part in parts {
        text.extend_from_slice(part.as_bytes())?;
    }
    Ok(text)
}

impl Written {
    // The place of the text that it says at the last look.
    fn place(&self) -> usize {
        self.looks.get().saturating_sub(1) / 2
    }
}

impl ConfigFile for Written {
    fn stamp(&self) -> Option<FileStamp> {
        self.looks.set(self.looks.get().saturating_add(1));
        Some(FileStamp {
            changed: self.place() as u64,
            size: 0,
        })
    }

    fn read(&self) -> Result<Vec<u8>, InlineText<MAX_REASON>> {
        let Some(parts) = self.texts.get(self.place()) else {
            return Err(missing());
        };
        match text(self.alloc, *parts) {
            Ok(text) if !text.is_empty() => Ok(text),
            _ => Err(missing()),
        }
    }
}

// What the system says of a file that isn't there.
pub(super) fn missing() -> InlineText<MAX_REASON> {
    InlineText::of("No such file or directory (os error 2)")
}

pub(super) fn config(alloc: Global, parts: &[&'static str]) -> Result<Config, Fail> {
    let bytes = text(alloc, parts)?;
    let Ok(text) = str::from_utf8(bytes.as_slice()) else {
        return Err(Fail::from("a text"));
    };
    match read_config(alloc, text) {
        Ok(config) => Ok(config),
        Err(_) => Err(Fail::from("a valid configuration")),
    }
}

/// A watcher that follows a file which says these texts, and was started with `config`.
pub(super) fn follower<'a>(
    alloc: Global,
    config: &'a Config,
    texts: &'static [&'static [&'static str]],
) -> Result<Watching<'a>, Fail> {
    let mut watcher = watcher(alloc, config.entries.as_slice(), false, start(true, None))?;
    watcher.follow(
        config,
        Written {
            alloc,
            texts,
            looks: Cell::new(0),
        },
    )?;
    let _ = watcher.next(NOTHING);
    watcher.changes.log.clear();
    Ok(watcher)
}

/// A run that returns this outcome of each change that is requested of it, and keeps the change.
#[derive(Drop)]
struct Run {
    outcome: Result<usize, ChangeFault>,
    requested: Option<RouteChanges>,
}

impl ChangeRoutes for Run {
    ghost requires_of = { λ a. Unit {0} };

    fn change(&mut self, changes: RouteChanges) -> Result<usize, ChangeFault> {
        self.requested = Some(changes);
        self.outcome
    }
}

/// Returns the change that is requested at the next two polls of the file, of a run that returns this outcome. The first
/// poll finds the file changed, and requests nothing.
pub(super) fn next_change(
    watcher: &mut Watching<'_>,
    outcome: Result<usize, ChangeFault>,
) -> Option<RouteChanges> {
    let mut run = Run {
        outcome,
        requested: None,
    };
    watcher.machine.moment = watcher.machine.moment.saturating_add(1_000_000);
    watcher.change_routes(&mut run);
    if run.requested.is_some() {
        return None;
    }
    watcher.machine.moment = watcher.machine.moment.saturating_add(50_000);
    watcher.change_routes(&mut run);
    run.requested
}

/// Asserts that a change closes the routes with these indexes, and opens as many routes, the first of this name.
pub(super) fn assert_requests(
    rt: &impl Abort,
    change: Option<RouteChanges>,
    closes: &[usize],
    opens: usize,
    first: &str,
) -> Result<(), Fail> {
    let Some(change) = change else {
        return Err(Fail::from("a change"));
    };
    assert_eq!(rt; change.closes.as_slice(), closes);
    assert_eq!(rt; change.opens.len(), opens);
    let name = match change.opens.first() {
        Some(entry) => entry.name.as_str(),
        None => "",
    };
    assert_eq!(rt; name, first);
    Ok(())
}

/// Asserts what the page shows: the initials of its routes, and the counts of changes taken, refused, and of indexes.
fn assert_page(rt: &impl Abort, watcher: &mut Watching<'_>, initials: &[u8], counts: [u64; 3]) {
    assert_eq!(rt; watcher.next(NOTHING), Order::GoOn);
    let [taken, refused, indexes] = counts;
    let wanted = ChangeCounts {
        taken,
        refused,
        indexes,
    };
    assert!(rt; watcher.page.server.changes == wanted);
    assert_eq!(rt; watcher.page.server.initials.as_slice(), initials);
    assert_eq!(rt; watcher.page.server.routes as usize, initials.len());
}

#[test]
fn a_change_is_requested_and_logged(rt: HostRuntime) -> Result<(), Fail> {
    let config = config(rt.alloc(), &[HEAD, STUDIO, NEWS])?;
    let mut watcher = follower(
        rt.alloc(),
        &config,
        &[
            &[HEAD, STUDIO, NEWS],
            &[HEAD, GUEST, SLOW_STUDIO],
            &[HEAD, SLOW_STUDIO, GUEST],
            &[HEAD, NEWS, GUEST],
        ],
    )?;
    let mut run = Run {
        outcome: Ok(2),
        requested: None,
    };
    watcher.machine.moment = 999_999;
    watcher.change_routes(&mut run);
    assert!(rt; run.requested.is_none());
    watcher.machine.moment = 0;
    assert!(rt; next_change(&mut watcher, Ok(2)).is_none());
    assert_lines(&rt, &mut watcher, "");
    assert_page(&rt, &mut watcher, b"sn", [0, 0, 2]);
    let change = next_change(&mut watcher, Ok(2));
    assert_requests(&rt, change, &[1, 0], 2, "guest")?;
    assert_lines(
        &rt,
        &mut watcher,
        "configuration changed: 0 routes stay, 1 open, 1 close, 1 change\nnews: closed, it is no longer in the configuration\nstudio: closed, to open again with other keys\nguest: opened with index 2, 6 MB\nstudio: opened with index 3, 6 MB\n",
    );
    assert_page(&rt, &mut watcher, b"gs", [1, 0, 4]);
    assert!(rt; next_change(&mut watcher, Ok(4)).is_none());
    assert_lines(&rt, &mut watcher, "");
    assert_page(&rt, &mut watcher, b"sg", [1, 0, 4]);
    let change = next_change(&mut watcher, Ok(4));
    assert_requests(&rt, change, &[3], 1, "news")?;
    assert_lines(
        &rt,
        &mut watcher,
        "configuration changed: 1 routes stay, 1 open, 1 close, 0 change\nstudio: closed, it is no longer in the configuration\nnews: opened with index 4, 6 MB\n",
    );
    assert_page(&rt, &mut watcher, b"ng", [2, 0, 5]);
    assert_eq!(rt; watcher.name_of(1), "news");
    assert_eq!(rt; watcher.name_of(3), "studio");
    Ok(())
}

#[test]
fn indexes_are_those_that_the_run_returns(rt: HostRuntime) -> Result<(), Fail> {
    let config = config(rt.alloc(), &[HEAD, STUDIO])?;
    let mut watcher = follower(
        rt.alloc(),
        &config,
        &[&[HEAD, STUDIO], &[HEAD, STUDIO, NEWS], &[HEAD, STUDIO]],
    )?;
    assert!(rt; next_change(&mut watcher, Ok(1)).is_none());
    let change = next_change(&mut watcher, Ok(7));
    assert_requests(&rt, change, &[], 1, "news")?;
    assert_lines(
        &rt,
        &mut watcher,
        "configuration changed: 1 routes stay, 1 open, 0 close, 0 change\nnews: opened with index 7, 6 MB\n",
    );
    let change = next_change(&mut watcher, Ok(8));
    assert_requests(&rt, change, &[7], 0, "")
}

#[test]
fn a_route_that_opens_has_its_list_and_its_key(rt: HostRuntime) -> Result<(), Fail> {
    let config = config(rt.alloc(), &[HEAD, STUDIO])?;
    let mut watcher = follower(
        rt.alloc(),
        &config,
        &[&[HEAD, STUDIO], &[HEAD, GUARDED_STUDIO]],
    )?;
    assert!(rt; next_change(&mut watcher, Ok(1)).is_none());
    let Some(change) = next_change(&mut watcher, Ok(1)) else {
        return Err(Fail::from("a change"));
    };
    assert_eq!(rt; change.closes.first().copied(), Some(0));
    let Some(entry) = change.opens.first() else {
        return Err(Fail::from("a route that opens"));
    };
    let publishers = entry.access.in_role(Role::Publish);
    assert!(rt; !publishers.lists(CALLER));
    assert!(rt; !publishers.is_right_key(None));
    assert!(rt; publishers.is_right_key(Some(b"put-a-key-of-your-own-here")));
    let subscribers = entry.access.in_role(Role::Request);
    assert!(rt; subscribers.lists(CALLER) && subscribers.is_right_key(None));
    Ok(())
}

/// Asserts that nothing is requested at the next poll of the file, and that these lines are logged.
fn assert_not_taken(rt: &impl Abort, watcher: &mut Watching<'_>, lines: &str) {
    assert!(rt; next_change(watcher, Ok(1)).is_none());
    assert_lines(rt, watcher, lines);
}

#[test]
fn what_is_not_taken_is_logged_once(rt: HostRuntime) -> Result<(), Fail> {
    let config = config(rt.alloc(), &[HEAD, STUDIO])?;
    let mut watcher = follower(
        rt.alloc(),
        &config,
        &[
            &[HEAD, WRONG_STUDIO],
            &[HEAD, WRONG_STUDIO],
            &[],
            &[],
            &[HEAD, WRONG_STUDIO],
            &[OTHER_HEAD, STUDIO, NEWS],
            &[HEAD],
        ],
    )?;
    assert_not_taken(
        &rt,
        &mut watcher,
        "configuration not taken: line 9: route 1 (studio): sessions = 40: allowed are 1 to 17\n",
    );
    assert_not_taken(&rt, &mut watcher, "");
    assert_not_taken(
        &rt,
        &mut watcher,
        "configuration can't be read: No such file or directory (os error 2)\n",
    );
    assert!(rt; next_change(&mut watcher, Ok(1)).is_none());
    assert_not_taken(&rt, &mut watcher, "");
    assert_not_taken(
        &rt,
        &mut watcher,
        "configuration not taken: bind can't change while the gateway runs (also: workers, secret); restart it to change it\n",
    );
    assert!(rt; next_change(&mut watcher, Ok(1)).is_none());
    watcher.changes.log.clear();
    assert_page(&rt, &mut watcher, b"s", [0, 3, 1]);
    Ok(())
}

#[test]
fn what_the_run_rejects_is_logged(rt: HostRuntime) -> Result<(), Fail> {
    let config = config(rt.alloc(), &[HEAD, STUDIO])?;
    let mut watcher = follower(
        rt.alloc(),
        &config,
        &[
            &[HEAD, STUDIO, NEWS],
            &[HEAD, STUDIO, NEWS, GUEST],
            &[HEAD, STUDIO],
        ],
    )?;
    let change = next_change(&mut watcher, Err(ChangeFault::OutOfMemory(0)));
    assert!(rt; change.is_some());
    assert_lines(
        &rt,
        &mut watcher,
        "configuration not taken: no memory for news\n",
    );
    let change = next_change(&mut watcher, Err(ChangeFault::NoIndexLeft(1)));
    assert!(rt; change.is_some());
    assert_lines(
        &rt,
        &mut watcher,
        "configuration not taken: 2 routes are to open, 1 indexes are left; restart the gateway\n",
    );
    assert_not_taken(&rt, &mut watcher, "");
    assert_page(&rt, &mut watcher, b"s", [0, 2, 1]);
    Ok(())
}

/// What the system says of a file that changed at this moment.
fn stamp_at(changed: u64) -> Option<FileStamp> {
    Some(FileStamp { changed, size: 0 })
}

#[test]
fn a_file_that_is_being_written_is_not_read(rt: HostRuntime) {
    let mut last = LastPoll::none();
    assert!(rt; !last.reads(stamp_at(1)) && last.is_settling());
    assert!(rt; !last.reads(stamp_at(2)) && last.is_settling());
    assert!(rt; last.reads(stamp_at(2)) && !last.is_settling());
    assert!(rt; last.reads(stamp_at(2)));
    assert!(rt; !last.reads(stamp_at(2)) && !last.is_settling());
    assert!(rt; last.reads(None) && !last.is_settling());
    assert!(rt; last.reads(None));
    assert!(rt; !last.reads(stamp_at(2)) && last.is_settling());
}

#[test]
fn few_indexes_are_logged_at_marks(rt: HostRuntime) {
    assert!(rt; !reaches_mark(2, 399));
    assert!(rt; reaches_mark(399, 400));
    assert!(rt; !reaches_mark(400, 424));
    assert!(rt; reaches_mark(424, 425));
    assert!(rt; reaches_mark(300, 511));
    assert!(rt; !reaches_mark(505, 505));
}

#[test]
fn memory_of_a_route(rt: HostRuntime) -> Result<(), Fail> {
    let config = config(rt.alloc(), &[HEAD, STUDIO])?;
    let Some(entry) = config.entries.first() else {
        return Err(Fail::from("a route"));
    };
    assert_eq!(rt; megabytes_of(entry), 6);
    Ok(())
}
