//! The lines of a configuration that changes while the gateway runs, and the counts of such changes.

ghost use Rattle.std.specs.Prelude.{◌≡◌, [], ◌∷◌, ◌++◌, map, true, option_map};
ghost use Rattle.srt_types.specs.Terms.{terms_of};
ghost use Rattle.srt_log.specs.declared.line_limits.LineKind.TheVariants.{Session};
ghost use Rattle.srt_watch.specs.Overview.{no_changes};
ghost use Rattle.srt_watch.specs.Log.{HasState, Logged, Always, Offered};
ghost use Rattle.srt_watch.specs.ChangeLines.{config_said, no_memory_said, one_taken, one_refused, not_taken_said, counted_not_taken, held_said, no_room_said};
ghost use Rattle.srt_watch.specs.ChangeLines.{close_call, closing_call, gone_calls, reopened_call, reopened_calls};
ghost use Rattle.srt_watch.specs.ChangeLines.{rejected_said, open_call, opens_calls, route_calls, taken_calls, few_calls};

use crate::in_force::{NotTaken, Wanted};
use crate::indexes::{megabytes_of, next_after, opens, reaches_mark};
use crate::log::{LogWriter, When};
use crate::prepared_change::{NoRoom, PreparedChange};
use srt_config::{Config, RouteChange};
use srt_log::{CloseCause, ConfigEvent, LineKind, LogEvent};
use srt_status::{ChangeCounts, EventRing};
use srt_supervision::ChangeFault;
use srt_types::Entry;
use srt_types::product_limits::MAX_ROUTES;
use std::alloc::Global;
use std::io::Write;

/// A log, and the counts of changes of the configuration. `indexes` of these isn't set here.
#[derive(Drop)]
pub(crate) struct ChangeLog<W: Drop> {
    pub log: LogWriter<W>,
    pub counts: ChangeCounts,
}

impl<W: Write + Drop> ChangeLog<W> {
    /// Returns a log without lines, and no changes.
    pub(crate) fn new(alloc: Global, out: W) -> ChangeLog<W>
        ensures out { result.log.out.out ≡ out }
        ensures counts { result.counts ≡ no_changes }
        ensures state { HasState result.log.pace (record { calls = []; missed = 0; second = 0; looks = 0 }) }
        ensures whole { result.log.pace.is_whole ≡ true }
    {
        ChangeLog {
            log: LogWriter::new(alloc, out),
            counts: ChangeCounts::default(),
        }
    }

    /// Returns the last lines of the log.
    pub(crate) fn events(&self) -> &EventRing
        ensures { result.now ≡ self.now.log.events }
    {
        self.log.events()
    }

    // Writes a line about the configuration, whether its second has room or not.
    fn write(&mut self, when: When, event: ConfigEvent<'_>)
        ensures counts { self.new.counts ≡ self.old.counts }
        ensures logged { Logged (W.contents self.old.log.out.out) (W.contents self.new.log.out.out) self.old.log.pace self.new.log.pace
            (Always when (config_said event.entry) ∷ []) }
    {
        self.log.append_always(when, LogEvent::Config { event });
    }

    // Logs why a changed configuration isn't taken, and counts it.
    fn refuse(&mut self, when: When, event: ConfigEvent<'_>)
        ensures counts { self.new.counts ≡ one_refused self.old.counts }
        ensures logged { Logged (W.contents self.old.log.out.out) (W.contents self.new.log.out.out) self.old.log.pace self.new.log.pace
            (Always when (config_said event.entry) ∷ []) }
    {
        self.write(when, event);
        self.counts.refused = self.counts.refused.saturating_add(1);
    }

    // Logs that there is no memory for what a changed configuration needs, and counts that.
    fn refuse_for_memory(&mut self, when: When)
        ensures counts { self.new.counts ≡ one_refused self.old.counts }
        ensures logged { Logged (W.contents self.old.log.out.out) (W.contents self.new.log.out.out) self.old.log.pace self.new.log.pace
            (Always when no_memory_said ∷ []) }
    {
        let why = "out of memory".as_bytes();
        self.refuse(when, ConfigEvent::Wrong { why });
    }

    /// Logs that the file's content isn't taken. A file that can't be read isn't counted: no configuration was refused.
    pub(crate) fn not_taken(&mut self, when: When, not_taken: &NotTaken)
        ensures counts { self.new.counts ≡ counted_not_taken not_taken.now self.old.counts }
        ensures logged { Logged (W.contents self.old.log.out.out) (W.contents self.new.log.out.out) self.old.log.pace self.new.log.pace
            (Always when (not_taken_said not_taken.now) ∷ []) }
    {
        match not_taken {
            NotTaken::Unread(why) => {
                let why = why.as_str().as_bytes();
                self.write(when, ConfigEvent::Unread { why });
            }
            NotTaken::Wrong(reason) => {
                let why = reason.text.as_str().as_bytes();
                self.refuse(when, ConfigEvent::Wrong { why });
            }
            NotTaken::NoMemory(_) => self.refuse_for_memory(when),
            NotTaken::KeysDiffer(keys) => self.refuse(
                when,
                ConfigEvent::KeysDiffer { keys: *keys },
            ),
        }
    }

    /// Logs that a configuration isn't taken yet, since it closes the route of this name, which has sessions.
    pub(crate) fn held(&mut self, when: When, route: &str)
        ensures counts { self.new.counts ≡ self.old.counts }
        ensures logged { Logged (W.contents self.old.log.out.out) (W.contents self.new.log.out.out) self.old.log.pace self.new.log.pace
            (Always when (held_said route.now) ∷ []) }
    {
        let route = route.as_bytes();
        self.write(when, ConfigEvent::Held { route });
    }

    /// Logs that a configuration isn't taken for lack of memory, and counts it.
    pub(crate) fn no_room(&mut self, when: When, no_room: &NoRoom)
        ensures counts { self.new.counts ≡ one_refused self.old.counts }
        ensures logged { Logged (W.contents self.old.log.out.out) (W.contents self.new.log.out.out) self.old.log.pace self.new.log.pace
            (Always when (no_room_said no_room.now) ∷ []) }
    {
        match no_room {
            NoRoom::Route(name, _) => {
                let route = name.as_str().as_bytes();
                self.refuse(when, ConfigEvent::NoMemory { route });
            }
            NoRoom::Lists(_) => self.refuse_for_memory(when),
        }
    }

    /// Logs why the run rejected this change, and counts it.
    pub(crate) fn rejected(&mut self, when: When, change: &PreparedChange, fault: ChangeFault)
        ensures counts { self.new.counts ≡ one_refused self.old.counts }
        ensures logged { Logged (W.contents self.old.log.out.out) (W.contents self.new.log.out.out) self.old.log.pace self.new.log.pace
            (Always when (rejected_said change.now.room.opening.items fault) ∷ []) }
    {
        match fault {
            ChangeFault::OutOfMemory(place) => {
                let route = change.name_at(place).as_bytes();
                self.refuse(when, ConfigEvent::NoMemory { route });
            }
            ChangeFault::NoIndexLeft(left) => self.refuse(
                when,
                ConfigEvent::NoIndexes {
                    opens: change.opens() as u64,
                    left: left as u64,
                },
            ),
        }
    }

    /// Logs a change that the run made, before its configuration is in force, and counts it: the first line always, those
    /// of routes as many as their second has room for. `before` is the configuration in force; routes opened from the
    /// index `first` on.
    pub(crate) fn taken(
        &mut self,
        when: When,
        change: &PreparedChange,
        before: &Config,
        first: usize,
    )
        ensures counts { self.new.counts ≡ one_taken self.old.counts }
        ensures logged { Logged (W.contents self.old.log.out.out) (W.contents self.new.log.out.out) self.old.log.pace self.new.log.pace
            (taken_calls when change.now.numbers before.now.entries.items change.now.wanted first) }
    {
        let wanted = change.wanted();
        let routes = change.numbers();
        self.write(when, ConfigEvent::Taken { routes });
        log_routes(
            &mut self.log,
            when,
            wanted,
            before.entries.as_slice(),
            first,
        );
        self.counts.taken = self.counts.taken.saturating_add(1);
    }

    /// Logs when few indexes are left, after a change that brought the number of used ones from `before` to `used`.
    #[tactic(auto, using(crate::proofs::Logging::logged_nothing))]
    pub(crate) fn few_indexes(&mut self, when: When, before: usize, used: usize)
        ensures counts { self.new.counts ≡ self.old.counts }
        ensures logged { Logged (W.contents self.old.log.out.out) (W.contents self.new.log.out.out) self.old.log.pace self.new.log.pace
            (few_calls when before used) }
    {
        if reaches_mark(before, used) {
            let left = MAX_ROUTES.saturating_sub(used) as u64;
            self.write(when, ConfigEvent::FewIndexes { left });
        }
    }
}

// Writes a line about a route, if its second has room.
fn log_route<W: Write + Drop>(log: &mut LogWriter<W>, when: When, event: ConfigEvent<'_>)
    ensures { Logged (W.contents log.old.out.out) (W.contents log.new.out.out) log.old.pace log.new.pace
        (Offered when Session (config_said event.entry) ∷ []) }
{
    log.append(when, LineKind::Session, LogEvent::Config { event });
}

// Writes that the route of this entry closes, if there is one.
#[tactic(auto, using(crate::proofs::Logging::logged_nothing))]
fn log_close<W: Write + Drop>(
    log: &mut LogWriter<W>,
    when: When,
    entry: Option<&Entry>,
    cause: CloseCause,
)
    ensures { Logged (W.contents log.old.out.out) (W.contents log.new.out.out) log.old.pace log.new.pace
        (close_call when cause (option_map (λ e. terms_of e.now) entry.entry)) }
{
    if let Some(entry) = entry {
        let route = entry.name.as_bytes();
        log_route(log, when, ConfigEvent::RouteCloses { route, cause });
    }
}

// Writes that the route of the entry at this place closes, if there is one.
#[tactic(auto, using(crate::proofs::ChangedRoutes::closed_at))]
fn log_close_at<W: Write + Drop>(
    log: &mut LogWriter<W>,
    when: When,
    before: &[Entry],
    place: usize,
    cause: CloseCause,
)
    ensures { Logged (W.contents log.old.out.out) (W.contents log.new.out.out) log.old.pace log.new.pace (closing_call when cause before.now place) }
{
    log_close(log, when, before.get(place), cause);
}

// Writes that the routes at these places close, whose names are gone.
#[tactic(auto, using(crate::proofs::Logging::logged_nothing, crate::proofs::ChangedRoutes::logged_flat))]
fn log_gone<W: Write + Drop>(log: &mut LogWriter<W>, when: When, before: &[Entry], gone: &[usize])
    ensures { Logged (W.contents log.old.out.out) (W.contents log.new.out.out) log.old.pace log.new.pace (gone_calls when before.now gone.now) }
{
    for place in gone {
        log_close_at(log, when, before, *place, CloseCause::Removed);
    }
}

// Writes that a route closes, if it is to open again.
#[tactic(auto, using(crate::proofs::Logging::logged_nothing))]
fn log_if_reopened<W: Write + Drop>(
    log: &mut LogWriter<W>,
    when: When,
    before: &[Entry],
    change: RouteChange,
)
    ensures { Logged (W.contents log.old.out.out) (W.contents log.new.out.out) log.old.pace log.new.pace (reopened_call when before.now change) }
{
    match change {
        RouteChange::Reopens(place) => {
            log_close_at(log, when, before, place, CloseCause::OtherKeys);
        }
        RouteChange::Stays(_) | RouteChange::Opens => {}
    }
}

// Writes that the routes close which are to open again.
#[tactic(auto, using(crate::proofs::Logging::logged_nothing, crate::proofs::ChangedRoutes::logged_flat))]
fn log_reopened<W: Write + Drop>(
    log: &mut LogWriter<W>,
    when: When,
    before: &[Entry],
    changes: &[RouteChange],
)
    ensures { Logged (W.contents log.old.out.out) (W.contents log.new.out.out) log.old.pace log.new.pace (reopened_calls when before.now changes.now) }
{
    for change in changes {
        log_if_reopened(log, when, before, *change);
    }
}

// Writes that the route of this entry opens with this index, if it opens.
#[tactic(auto, using(crate::proofs::Logging::logged_nothing))]
fn log_if_opens<W: Write + Drop>(
    log: &mut LogWriter<W>,
    when: When,
    change: RouteChange,
    entry: &Entry,
    index: usize,
)
    ensures { Logged (W.contents log.old.out.out) (W.contents log.new.out.out) log.old.pace log.new.pace (open_call when change (terms_of entry.now) index) }
{
    if !opens(change) {
        return;
    }
    log_route(
        log,
        when,
        ConfigEvent::RouteOpens {
            route: entry.name.as_bytes(),
            index: index as u64,
            megabytes: megabytes_of(entry),
        },
    );
}

// Writes which of these routes open, in their order. They have the indexes from `first` on.
#[tactic(auto, using(crate::proofs::OpenedLines::leads_begin, crate::proofs::OpenedLines::leads_on, crate::proofs::OpenedLines::leads_end))]
fn log_opens<W: Write + Drop>(
    log: &mut LogWriter<W>,
    when: When,
    changes: &[RouteChange],
    entries: &[Entry],
    first: usize,
)
    ensures { Logged (W.contents log.old.out.out) (W.contents log.new.out.out) log.old.pace log.new.pace
        (opens_calls when first changes.now (map terms_of entries.now)) }
{
    let mut index = first;
    let mut rest = changes;
    let mut routes = entries;
    while !rest.is_empty() && !routes.is_empty() {
        log_if_opens(log, when, rest[0], &routes[0], index);
        index = next_after(index, rest[0]);
        rest = &rest[1..];
        routes = &routes[1..];
    }
}

// Writes which routes close and open by a change: first those whose names are gone, then those that open again.
#[tactic(auto, using(crate::proofs::Logging::logged_both))]
fn log_routes<W: Write + Drop>(
    log: &mut LogWriter<W>,
    when: When,
    wanted: &Wanted,
    before: &[Entry],
    first: usize,
)
    ensures { Logged (W.contents log.old.out.out) (W.contents log.new.out.out) log.old.pace log.new.pace (route_calls when before.now wanted.now first) }
{
    log_gone(log, when, before, wanted.changes.gone.as_slice());
    log_reopened(log, when, before, wanted.changes.routes.as_slice());
    log_opens(
        log,
        when,
        wanted.changes.routes.as_slice(),
        wanted.config.entries.as_slice(),
        first,
    );
}
