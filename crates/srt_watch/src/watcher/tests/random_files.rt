//! A watcher that follows ten thousand random files: right ones, wrong ones, some that can't be read, and some whose change
//! the run rejects. A plain model has the routes in force; each file's request, log lines and status are compared with it.

use super::changing::{HEAD, OTHER_HEAD, missing};
use super::{NOTHING, Set, Shown, start};
use crate::{ConfigFile, FileStamp, LogForm, MAX_REASON, Outlets, Watcher};
use arrayvec::ArrayVec;
use srt_config::{Config, read_config};
use srt_samples::Dice;
use srt_status::ChangeCounts;
use srt_supervision::{ChangeFault, ChangeRoutes, Order, RouteChanges, Watch};
use std::alloc::{AllocError, Global};
use std::cell::Cell;
use std::fmt::InlineText;
use std::process::Abort;
use std::test::Fail;

/// The names of routes.
const NAMES: [&str; 3] = ["studio", "news", "guest"];

/// How many files a test has: ten thousand in all, in tests that end within their time.
const FILES: u32 = 2_000;

/// A watcher is replaced by a new one beyond this number of indexes, before a line would say that few are left.
const MANY_INDEXES: usize = 390;

type Following<'a> = Watcher<'a, Set, Vec<u8>, Shown, RandomFiles>;

/// What a file has of a route: nothing, or its latency.
#[derive(Clone, Copy)]
enum Latency {
    NoRoute,
    Ms120,
    Ms200,
}

#[derive(Clone, Copy)]
enum Kind {
    Right,
    /// Its first route has too many sessions.
    Wrong,
    /// Keys differ that can't change.
    OtherKeys,
    Unreadable,
}

/// What the run answers to a change.
#[derive(Clone, Copy)]
enum Answer {
    Made,
    NoMemory,
    NoIndexes,
}

/// A random file.
#[derive(Clone, Copy)]
struct RandomFile {
    kind: Kind,
    /// What it has of each name.
    routes: [Latency; 3],
    /// The place of the name with which its routes begin.
    first: usize,
    answer: Answer,
}

fn random_latency(dice: &mut Dice) -> Latency {
    match dice.below(3) {
        0 => Latency::NoRoute,
        1 => Latency::Ms120,
        _ => Latency::Ms200,
    }
}

impl RandomFile {
    /// The file at a place of a watcher's random files.
    fn at(seed: u64, place: u64) -> RandomFile {
        let mut dice = Dice::new(seed.wrapping_mul(1_000_003).wrapping_add(place));
        let _ = dice.below(1);
        let kind = match dice.below(10) {
            0 => Kind::Unreadable,
            1 => Kind::Wrong,
            2 => Kind::OtherKeys,
            _ => Kind::Right,
        };
        let routes = [
            random_latency(&mut dice),
            random_latency(&mut dice),
            random_latency(&mut dice),
        ];
        let answer = match dice.below(8) {
            0 => Answer::NoMemory,
            1 => Answer::NoIndexes,
            _ => Answer::Made,
        };
        RandomFile {
            kind,
            routes,
            first: dice.below(3) as usize,
            answer,
        }
    }

    /// The names of its routes with their latencies in milliseconds, in its order. A file without any has `studio`.
    fn in_order(&self) -> ArrayVec<(usize, u32), 3> {
        let mut found = ArrayVec::new();
        for step in 0..3usize {
            let name = self.first.wrapping_add(step) % 3;
            let ms = match self.routes[name] {
                Latency::NoRoute => continue,
                Latency::Ms120 => 120u32,
                Latency::Ms200 => 200u32,
            };
            let _ = found.try_push((name, ms));
        }
        if found.is_empty() {
            let _ = found.try_push((0, 120));
        }
        found
    }

    fn text(&self, alloc: Global) -> Result<String, AllocError> {
        let head = match self.kind {
            Kind::OtherKeys => OTHER_HEAD,
            _ => HEAD,
        };
        let mut text = String::from_str(alloc, head)?;
        let mut sessions = match self.kind {
            Kind::Wrong => 40u32,
            _ => 2u32,
        };
        for (name, ms) in self.in_order().iter() {
            let name = NAMES[*name % 3];
            let route = format!(in alloc;
                "[[route]]\nname = \"{name}\"\nmode = \"live\"\nlatency_ms = {ms}\nbuffer = 1024\nsessions = {sessions}\ninbox = 16\noutbox = 136\n"
            )?;
            text.push_str(route.as_str())?;
            sessions = 2;
        }
        Ok(text)
    }
}

/// A file that is written anew after each two polls.
#[derive(Drop)]
struct RandomFiles {
    alloc: Global,
    seed: u64,
    polls: Cell<u64>,
}

impl RandomFiles {
    fn place(&self) -> u64 {
        self.polls.get().saturating_sub(1) / 2
    }
}

impl ConfigFile for RandomFiles {
    fn stamp(&self) -> Option<FileStamp> {
        self.polls.set(self.polls.get().saturating_add(1));
        Some(FileStamp {
            changed: self.place(),
            size: 0,
        })
    }

    fn read(&self) -> Result<Vec<u8>, InlineText<MAX_REASON>> {
        let file = RandomFile::at(self.seed, self.place());
        if let Kind::Unreadable = file.kind {
            return Err(missing());
        }
        match file.text(self.alloc) {
            Ok(text) => Ok(text.into_bytes()),
            Err(_) => Err(missing()),
        }
    }
}

/// A route in force.
#[derive(Clone, Copy, Default)]
struct InForce {
    name: usize,
    ms: u32,
    index: usize,
}

/// What a file is to do: the indexes that close, the names that open, and the lines.
#[derive(Drop)]
struct Expected {
    closes: ArrayVec<usize, 3>,
    opens: ArrayVec<usize, 3>,
    lines: String,
}

/// The model.
#[derive(Drop)]
struct Model {
    alloc: Global,
    routes: ArrayVec<InForce, 3>,
    indexes: usize,
    taken: u64,
    refused: u64,
    /// The text that was read last.
    last: Option<String>,
    is_unread: bool,
}

impl Model {
    /// `studio` is in force, with the index 0.
    fn new(alloc: Global) -> Model {
        let mut routes = ArrayVec::new();
        let _ = routes.try_push(InForce {
            name: 0,
            ms: 120,
            index: 0,
        });
        Model {
            alloc,
            routes,
            indexes: 1,
            taken: 0,
            refused: 0,
            last: None,
            is_unread: false,
        }
    }

    fn in_force(&self, name: usize) -> Option<InForce> {
        for route in self.routes.iter() {
            if route.name == name {
                return Some(*route);
            }
        }
        None
    }

    fn nothing(&self) -> Expected {
        Expected {
            closes: ArrayVec::new(),
            opens: ArrayVec::new(),
            lines: String::new(self.alloc),
        }
    }

    fn line(&self, line: &str) -> Result<Expected, Fail> {
        let mut expected = self.nothing();
        expected.lines.push_str(line)?;
        Ok(expected)
    }

    /// The file was written, and polled twice.
    fn read(&mut self, file: &RandomFile) -> Result<Expected, Fail> {
        if let Kind::Unreadable = file.kind {
            if self.is_unread {
                return Ok(self.nothing());
            }
            self.is_unread = true;
            return self.line(
                "configuration can't be read: No such file or directory (os error 2)\n",
            );
        }
        self.is_unread = false;
        let text = file.text(self.alloc)?;
        let is_known = match &self.last {
            Some(last) => last.as_str() == text.as_str(),
            None => false,
        };
        self.last = Some(text);
        if is_known {
            return Ok(self.nothing());
        }
        match file.kind {
            Kind::Wrong => {
                self.refused = self.refused.saturating_add(1);
                let first = file.in_order().first().map_or(0, |route| route.0);
                let name = NAMES[first % 3];
                let line = format!(in self.alloc;
                    "configuration not taken: line 9: route 1 ({name}): sessions = 40: allowed are 1 to 17\n"
                )?;
                self.line(line.as_str())
            }
            Kind::OtherKeys => {
                self.refused = self.refused.saturating_add(1);
                self.line(
                    "configuration not taken: bind can't change while the gateway runs (also: workers, secret); restart it to change it\n",
                )
            }
            _ => self.change(file),
        }
    }
}

/// How a file's routes differ from those in force.
#[derive(Drop)]
struct Differences {
    gone: ArrayVec<InForce, 3>,
    /// The routes in force that have another latency in the file, in its order.
    changed: ArrayVec<InForce, 3>,
    /// The routes that open, new ones and changed ones, in the file's order.
    opens: ArrayVec<(usize, u32), 3>,
    stay: usize,
}

impl Model {
    fn differences(&self, file: &RandomFile) -> Differences {
        let mut differences = Differences {
            gone: ArrayVec::new(),
            changed: ArrayVec::new(),
            opens: ArrayVec::new(),
            stay: 0,
        };
        let wanted = file.in_order();
        for route in self.routes.iter() {
            if !wanted.iter().any(|it| it.0 == route.name) {
                let _ = differences.gone.try_push(*route);
            }
        }
        for (name, ms) in wanted.iter() {
            match self.in_force(*name) {
                Some(route) if route.ms == *ms => {
                    differences.stay = differences.stay.saturating_add(1);
                }
                Some(route) => {
                    let _ = differences.changed.try_push(route);
                    let _ = differences.opens.try_push((*name, *ms));
                }
                None => {
                    let _ = differences.opens.try_push((*name, *ms));
                }
            }
        }
        differences
    }

    /// What the run answers to the file's change, if there is one. Routes open from the next index on.
    fn answer(&self, file: &RandomFile) -> Result<usize, ChangeFault> {
        let opens = self.differences(file).opens.len();
        match file.answer {
            Answer::NoMemory if opens > 0 => Err(ChangeFault::OutOfMemory(0)),
            Answer::NoIndexes if opens > 0 => Err(ChangeFault::NoIndexLeft(opens.saturating_sub(
                1,
            ))),
            _ => Ok(self.indexes),
        }
    }

    /// A right file was read.
    fn change(&mut self, file: &RandomFile) -> Result<Expected, Fail> {
        let differences = self.differences(file);
        let mut expected = self.nothing();
        for route in differences.gone.iter() {
            let _ = expected.closes.try_push(route.index);
        }
        for route in differences.changed.iter() {
            let _ = expected.closes.try_push(route.index);
        }
        for (name, _) in differences.opens.iter() {
            let _ = expected.opens.try_push(*name);
        }
        let is_change = !expected.closes.is_empty() || !expected.opens.is_empty();
        let opens = differences.opens.len();
        match self.answer(file) {
            Err(fault) if is_change => {
                self.refused = self.refused.saturating_add(1);
                let first = differences.opens.first().map_or(0, |route| route.0);
                let name = NAMES[first % 3];
                let left = opens.saturating_sub(1);
                let line = match fault {
                    ChangeFault::OutOfMemory(_) => {
                        format!(in self.alloc; "configuration not taken: no memory for {name}\n")?
                    }
                    ChangeFault::NoIndexLeft(_) => format!(in self.alloc;
                        "configuration not taken: {opens} routes are to open, {left} indexes are left; restart the gateway\n"
                    )?,
                };
                expected.lines.push_str(line.as_str())?;
                return Ok(expected);
            }
            _ => {}
        }
        if is_change {
            self.taken = self.taken.saturating_add(1);
            self.put_lines(&differences, &mut expected.lines)?;
        }
        self.put_in_force(file, &differences);
        Ok(expected)
    }

    fn put_lines(&self, differences: &Differences, lines: &mut String) -> Result<(), Fail> {
        let gone = differences.gone.len();
        let changed = differences.changed.len();
        let stay = differences.stay;
        let new = differences.opens.len().saturating_sub(changed);
        let line = format!(in self.alloc;
            "configuration changed: {stay} routes stay, {new} open, {gone} close, {changed} change\n"
        )?;
        lines.push_str(line.as_str())?;
        for route in differences.gone.iter() {
            lines.push_str(NAMES[route.name % 3])?;
            lines.push_str(": closed, it is no longer in the configuration\n")?;
        }
        for route in differences.changed.iter() {
            lines.push_str(NAMES[route.name % 3])?;
            lines.push_str(": closed, to open again with other keys\n")?;
        }
        let mut index = self.indexes;
        for (name, _) in differences.opens.iter() {
            let name = NAMES[*name % 3];
            let line = format!(in self.alloc; "{name}: opened with index {index}, 6 MB\n")?;
            lines.push_str(line.as_str())?;
            index = index.saturating_add(1);
        }
        Ok(())
    }

    fn put_in_force(&mut self, file: &RandomFile, differences: &Differences) {
        let mut routes = ArrayVec::new();
        for (name, ms) in file.in_order().iter() {
            let name = *name;
            let opens = differences.opens.iter().any(|it| it.0 == name);
            let index = match self.in_force(name) {
                Some(route) if !opens => route.index,
                _ => {
                    let index = self.indexes;
                    self.indexes = index.saturating_add(1);
                    index
                }
            };
            let ms = *ms;
            let _ = routes.try_push(InForce { name, ms, index });
        }
        self.routes = routes;
    }
}

/// A run that answers so, and keeps the change that was requested.
#[derive(Drop)]
struct Run {
    answer: Result<usize, ChangeFault>,
    requested: Option<RouteChanges>,
}

impl ChangeRoutes for Run {
    ghost requires_of = { λ a. Unit {0} };

    fn change(&mut self, changes: RouteChanges) -> Result<usize, ChangeFault> {
        self.requested = Some(changes);
        self.answer
    }
}

/// Asserts that the change is the one that was expected; that none is, where nothing is to close or open.
fn assert_requested(rt: &impl Abort, requested: Option<RouteChanges>, expected: &Expected) {
    let Some(change) = requested else {
        assert!(rt; expected.closes.is_empty() && expected.opens.is_empty());
        return;
    };
    assert_eq!(rt; change.closes.as_slice(), expected.closes.as_slice());
    assert_eq!(rt; change.opens.len(), expected.opens.len());
    for (entry, name) in change.opens.iter().zip(expected.opens.iter()) {
        assert_eq!(rt; entry.name.as_str(), NAMES[*name % 3]);
    }
    assert!(rt; !change.closes.is_empty() || !change.opens.is_empty());
}

/// The first letter of a name.
fn initial_of(name: usize) -> u8 {
    NAMES[name % 3].as_bytes().first().copied().unwrap_or(0)
}

/// Asserts that the page shows the routes in force and the counts of changes.
fn assert_status(rt: &impl Abort, watcher: &mut Following<'_>, model: &Model) {
    assert_eq!(rt; watcher.next(NOTHING), Order::GoOn);
    let counts = ChangeCounts {
        taken: model.taken,
        refused: model.refused,
        indexes: model.indexes as u64,
    };
    let routes = model.routes.len();
    assert!(rt; watcher.page.server.changes == counts);
    assert_eq!(rt; watcher.page.server.routes as usize, routes);
    assert_eq!(rt; watcher.page.server.initials.len(), routes);
    for at in 0..routes {
        let shown = watcher.page.server.initials.get(at).copied();
        let wanted = model.routes.get(at).map(|route| initial_of(route.name));
        assert!(rt; shown == wanted);
    }
}

fn first_config(alloc: Global) -> Result<Config, Fail> {
    let mut text = String::from_str(alloc, HEAD)?;
    text.push_str(
        "[[route]]\nname = \"studio\"\nmode = \"live\"\nlatency_ms = 120\nbuffer = 1024\nsessions = 2\ninbox = 16\noutbox = 136\n",
    )?;
    match read_config(alloc, text.as_str()) {
        Ok(config) => Ok(config),
        Err(_) => Err(Fail::from("a valid configuration")),
    }
}

fn follower<'a>(alloc: Global, config: &'a Config, seed: u64) -> Result<Following<'a>, Fail> {
    let machine = Set {
        moment: 0,
        stops: false,
        drops: 0,
    };
    let out = Vec::with_capacity(alloc, 16_384)?;
    let mut watcher = Watcher::open(
        alloc,
        machine,
        Outlets {
            log: out,
            form: LogForm {
                is_timed: false,
                is_json: false,
            },
            page: Shown::nothing(),
        },
        config.entries.as_slice(),
        start(true, None),
    )?;
    let polls = Cell::new(0);
    watcher.follow(config, RandomFiles { alloc, seed, polls })?;
    let _ = watcher.next(NOTHING);
    watcher.changes.log.clear();
    Ok(watcher)
}

/// The watcher polls a random file twice, and does what the model says.
fn follow_file(
    rt: &impl Abort,
    watcher: &mut Following<'_>,
    model: &mut Model,
    file: &RandomFile,
) -> Result<(), Fail> {
    let mut run = Run {
        answer: model.answer(file),
        requested: None,
    };
    watcher.machine.moment = watcher.machine.moment.saturating_add(1_000_000);
    watcher.change_routes(&mut run);
    assert!(rt; run.requested.is_none());
    watcher.machine.moment = watcher.machine.moment.saturating_add(50_000);
    watcher.change_routes(&mut run);
    let expected = model.read(file)?;
    assert_requested(rt, run.requested, &expected);
    assert_eq!(rt; watcher.changes.log.written(), expected.lines.as_bytes());
    watcher.changes.log.clear();
    assert_status(rt, watcher, model);
    assert_eq!(rt; watcher.changes.log.written().len(), 0);
    Ok(())
}

/// A watcher follows at most `most` files. Returns how many it followed.
fn follow_files(
    rt: &impl Abort,
    alloc: Global,
    config: &Config,
    seed: u64,
    most: u32,
) -> Result<u32, Fail> {
    let mut watcher = follower(alloc, config, seed)?;
    let mut model = Model::new(alloc);
    for place in 0..most {
        if model.indexes > MANY_INDEXES {
            return Ok(place);
        }
        let file = RandomFile::at(seed, place as u64);
        follow_file(rt, &mut watcher, &mut model, &file)?;
    }
    Ok(most)
}

/// Watchers with these seeds, one after the other, follow all files of a test.
fn follow_all(rt: &impl Abort, alloc: Global, first_seed: u64) -> Result<(), Fail> {
    let config = first_config(alloc)?;
    let mut left = FILES;
    for seed in 0..20u64 {
        let followed = follow_files(rt, alloc, &config, first_seed.wrapping_add(seed), left)?;
        left = left.saturating_sub(followed);
    }
    assert_eq!(rt; left, 0);
    Ok(())
}

#[test]
fn random_files_of_the_first_seeds(rt: HostRuntime) -> Result<(), Fail> {
    follow_all(&rt, rt.alloc(), 0)
}

#[test]
fn random_files_of_the_second_seeds(rt: HostRuntime) -> Result<(), Fail> {
    follow_all(&rt, rt.alloc(), 100)
}

#[test]
fn random_files_of_the_third_seeds(rt: HostRuntime) -> Result<(), Fail> {
    follow_all(&rt, rt.alloc(), 200)
}

#[test]
fn random_files_of_the_fourth_seeds(rt: HostRuntime) -> Result<(), Fail> {
    follow_all(&rt, rt.alloc(), 300)
}

#[test]
fn random_files_of_the_fifth_seeds(rt: HostRuntime) -> Result<(), Fail> {
    follow_all(&rt, rt.alloc(), 400)
}
