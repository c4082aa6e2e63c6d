//! A watcher: its rests and snapshots, the changes that it requests of the run, and how it stops the gateway.

ghost use Rattle.std.specs.Prelude.{◌≡◌, ◌+◌, [], ◌∷◌, true, false, None, Some, IfOk, OnOk, is_some, length, map, option_map};
ghost use Rattle.std.specs.Option.{ForSome};
ghost use Rattle.srt_watch.specs.Answers.{IsAnswer};
ghost use Rattle.srt_watch.specs.Draining.{HasClosed};
ghost use Rattle.srt_watch.specs.Course.{first_course, begun, is_due, after_due, is_stopping};
ghost use Rattle.srt_watch.specs.Log.{HasState, Logged, Missed, most};
ghost use Rattle.srt_watch.specs.Losses.{no_losses, with_faults, with_missed, more_missed};
ghost use Rattle.srt_types.specs.Terms.{terms_of};
ghost use Rattle.srt_watch.specs.Expecting.{AreExpecting};
ghost use Rattle.srt_watch.specs.FirstRoutes.{HasOpened};
ghost use Rattle.srt_watch.specs.Outcomes.{file_with, HasPolled};
ghost use Rattle.srt_watch.specs.Overview.{no_overview, no_changes, with_report, after_refusal};
ghost use Rattle.srt_watch.specs.Polls.{first_polling};
ghost use Rattle.srt_watch.specs.Requests.{config_of, first_indexes};
ghost use Rattle.srt_watch.specs.Routes.{name_of, requested_by, used_of};
ghost use Rattle.srt_watch.specs.FirstLines.{HasWarned};
ghost use Rattle.srt_watch.specs.Turns.{ShowedAt, HasBegun, HasLost, HasUse, HasTurned, HasLooked, HasEnded, rounds_unless, pair_calls, HasShown};
ghost use Rattle.srt_watch.specs.Pages.{ShowedPage, ShowedTwice};
ghost use Rattle.srt_watch.specs.Stopping.{order_of, stop_step};
ghost use Rattle.srt_supervision.specs.Answers.{Answer as TheAnswer, IsOrdered};
ghost use Rattle.srt_watch.specs.Watching.{stop_calls, CheckedStop};
ghost use Rattle.srt_watch.specs.Repeating.{known_by, known_after, refused_calls};

use crate::change_log::ChangeLog;
use crate::config_file::ConfigFile;
use crate::first_lines::{FirstLines, Start};
use crate::following::Following;
use crate::log::{LogForm, LogWriter, When};
use crate::losses::Losses;
use crate::machine::Machine;
use crate::overview::Overview;
use crate::page::Page;
use crate::page_interface::StatusServer;
use crate::refusals::{log_refused, log_repeats};
use crate::route_lines::{RouteLog, log_absence, log_changes, log_limits, take_overs};
use crate::steering::Steering;
use crate::watched_routes::{SnapshotPair, WatchedRoutes};
use srt_config::Config;
use srt_log::{LogEvent, RefusalRepeats, StopCause};
use srt_route::Route;
use srt_supervision::{Answers, ChangeRoutes, Order, Refusal, RunStatus, Watch};
use srt_types::Entry;
use std::alloc::{AllocError, Global};
use std::fmt::Display;
use std::io::Write;
use std::mem;

// Returns the name that a refused conclusion requested. If a route refused it, that is the route's name.
fn requested_name<'v>(routes: &'v WatchedRoutes, refusal: &'v Refusal) -> &'v [u8]
    ensures { result.now ≡ requested_by routes.now refusal.now.name.items refusal.now.route }
{
    match refusal.route {
        Some(route) => routes.name_of(route).as_bytes(),
        None => refusal.name.as_slice(),
    }
}

// Counts a conclusion if the lobby refused it: a route counts those that it refuses.
fn count_lobby_refusal(overview: &mut Overview, refusal: &Refusal)
    ensures { overview.new ≡ after_refusal overview.old refusal.now }
{
    if refusal.route.is_none() {
        overview.count_refusal(refusal.code, refusal.cause);
    }
}

// Writes why a stop was requested, if it was.
#[tactic(auto, using(crate::proofs::Logging::logged_nothing))]
fn log_stop<W: Write + Drop>(log: &mut LogWriter<W>, when: When, by: Option<StopCause>)
    ensures { Logged (W.contents log.old.out.out) (W.contents log.new.out.out) log.old.pace log.new.pace (stop_calls when by) }
{
    if let Some(by) = by {
        log.append_always(when, LogEvent::StopRequested { by });
    }
}

// Returns why a gateway ends that wasn't to stop: all rounds were made.
fn rounds_unless(stopping: bool) -> Option<StopCause>
    ensures { result ≡ rounds_unless stopping }
{
    if stopping {
        None
    } else {
        Some(StopCause::Rounds)
    }
}

// Logs a requested stop, once.
fn check_stop<M: Machine, W: Write + Drop>(
    machine: &M,
    steering: &mut Steering<M>,
    log: &mut LogWriter<W>,
    when: When,
)
    requires { M.facts.was_moment when.moment }
    ensures checked { CheckedStop (M.says machine.now) steering.old.course steering.new.course (W.contents log.old.out.out) (W.contents log.new.out.out)
        log.old.pace log.new.pace when }
    ensures lasts { steering.new.lasts ≡ steering.old.lasts }
{
    let requested = machine.stop_requested();
    let by = steering.stop(requested, when.moment);
    log_stop(log, when, by);
}

// Writes the first lines, unless they were written, for this many routes.
fn log_first<M: Machine, W: Write + Drop>(
    machine: &M,
    first_lines: &mut FirstLines,
    log: &mut LogWriter<W>,
    when: When,
    routes: usize,
)
    ensures start { first_lines.new.start ≡ None }
    ensures logged { HasBegun (M.says machine.now) first_lines.old (W.contents log.old.out.out) (W.contents log.new.out.out)
        log.old.pace log.new.pace when routes }
{
    let routes = u32::try_from(routes).unwrap_or(u32::MAX);
    let memory = machine.memory().unwrap_or(0);
    first_lines.log(log, when, routes, memory);
}

// Reads how many datagrams the kernel dropped, and logs that and the socket's faults since the last such lines.
fn log_drops<M: Machine, W: Write + Drop>(
    machine: &M,
    overview: &mut Overview,
    losses: &mut Losses,
    log: &mut LogWriter<W>,
    when: When,
)
    ensures { HasLost (M.says machine.now) overview.old overview.new losses.old losses.new (W.contents log.old.out.out) (W.contents log.new.out.out)
        log.old.pace log.new.pace when }
{
    let drops = machine.drops();
    overview.drops = drops;
    losses.log(log, when, drops);
}

// Reads what the process uses, and the size of the socket's buffer.
fn read_use<M: Machine>(machine: &M, overview: &mut Overview)
    ensures { HasUse (M.says machine.now) overview.old overview.new }
{
    overview.memory = machine.memory();
    overview.process = machine.process();
    overview.receive_buffer = machine.receive_buffer();
}

// Writes the lines of two snapshots of the route with this name.
fn log_pair<W: Write + Drop>(log: &mut LogWriter<W>, when: When, name: &[u8], pair: &SnapshotPair)
    ensures { Logged (W.contents log.old.out.out) (W.contents log.new.out.out) log.old.pace log.new.pace (pair_calls when name.entry pair.now) }
{
    log_changes(log, RouteLog { name, when }, pair);
    log_limits(log, when, name, pair.grown);
    log_absence(log, when, name, pair.absent);
}

// Takes a snapshot of the route with this index, and writes what has changed since the one before. `stops`: the gateway is
// about to end.
fn show<W: Write + Drop>(
    routes: &mut WatchedRoutes,
    log: &mut LogWriter<W>,
    when: When,
    stops: bool,
    index: usize,
    route: &Route,
)
    ensures { HasShown routes.old routes.new index route.now stops (W.contents log.old.out.out) (W.contents log.new.out.out) log.old.pace log.new.pace when }
{
    let Some(pair) = routes.observe(index, route, when.moment, stops) else {
        return;
    };
    log_pair(log, when, routes.name_of(index).as_bytes(), &pair);
    routes.count_take_overs(index, take_overs(&pair));
    routes.count_ends(index, &pair);
}

/// Where a watcher writes its log, and where it shows the status.
#[derive(Drop)]
pub struct Outlets<W: Drop, P: Drop> {
    /// Where the lines of the log are written.
    pub log: W,
    /// The form of these lines.
    pub form: LogForm,
    /// Where the status is shown.
    pub page: P,
}

/// The watcher of a gateway. It logs sessions, refusals and faults, shows the status page, requests the changes of a changed
/// configuration, and stops the gateway on a signal or after its time.
#[derive(Drop)]
pub struct Watcher<'a, M: Machine + Drop, W: Drop, P: Drop, F: ConfigFile + Drop> {
    alloc: Global,
    machine: M,
    steering: Steering<M>,
    // the form of the log's lines
    form: LogForm,
    changes: ChangeLog<W>,
    first_lines: FirstLines,
    losses: Losses,
    // the callers that were refused
    repeats: RefusalRepeats,
    page: Page<P>,
    // the gateway as a whole, and the routes of the run, at the last snapshot
    overview: Overview,
    routes: WatchedRoutes,
    // the configuration's file; none if it isn't followed
    following: Option<Following<'a, F>>,
}

impl<'a, M, W, P, F> Watcher<'a, M, W, P, F>
where
    M: Machine + Drop,
    W: Write + Drop,
    P: StatusServer + Drop,
    F: ConfigFile + Drop,
{
    /// Returns a watcher of the routes of these entries, which have the indexes from 0 on in their order. It writes its lines
    /// and shows the status at these outlets. Allocates 13 KB for each route; the only error is out of memory.
    pub fn open(
        alloc: Global,
        machine: M,
        outlets: Outlets<W, P>,
        entries: &[Entry],
        start: Start,
    ) -> Result<Watcher<'a, M, W, P, F>, AllocError>
        requires { ForSome start.lasts M.facts.was_lasting }
        ensures parts { IfOk result (λ w. (w.machine ≡ machine) × (w.form ≡ outlets.form) × (w.page.server ≡ outlets.page)
            × (w.page.version ≡ start.version) × (w.first_lines.start ≡ Some start) × (w.first_lines.warnings.items ≡ [])
            × (w.changes.log.out.out ≡ outlets.log) × (is_some w.following ≡ false)) }
        ensures routes { IfOk result (λ w. HasOpened (map terms_of entries.now) w.routes) }
        ensures begins { IfOk result (λ w. (w.steering.lasts ≡ start.lasts) × (w.steering.course ≡ first_course) × (w.losses ≡ no_losses)
            × (w.overview ≡ no_overview) × (known_by w.repeats ≡ []) × (w.changes.counts ≡ no_changes) × (w.changes.log.pace.is_whole ≡ true)
            × HasState w.changes.log.pace (record { calls = []; missed = 0; second = 0; looks = 0 })) }
    {
        let routes = WatchedRoutes::open(alloc, entries)?;
        let Outlets { log, form, page } = outlets;
        Ok(Watcher {
            alloc,
            machine,
            steering: Steering::new(start.lasts),
            form,
            changes: ChangeLog::new(alloc, log),
            first_lines: FirstLines::new(alloc, start),
            losses: Losses::none(),
            repeats: RefusalRepeats::new(),
            page: Page::new(page, start.version),
            overview: Overview::new(),
            routes,
            following: None,
        })
    }

    /// Follows the configuration's file from now on. `config` is what was read from it, and has the watcher's routes.
    /// Allocates 8 bytes for each route; the only error is out of memory.
    pub fn follow(&mut self, config: &'a Config, file: F) -> Result<(), AllocError>
        requires { F.facts.was_first config.now }
        ensures follows { OnOk result (ForSome self.new.following (λ f. (config_of f.in_force ≡ config.now)
            × (f.in_force.indexes.items ≡ first_indexes (length config.now.entries.items)) × (f.file.polling ≡ first_polling) × (f.file.content ≡ None)
            × (f.file.file ≡ file)) × (is_some self.new.following ≡ true)) }
        ensures others { (self.new.machine ≡ self.old.machine) × (self.new.steering ≡ self.old.steering) × (self.new.losses ≡ self.old.losses)
            × (self.new.overview ≡ self.old.overview) × (self.new.first_lines ≡ self.old.first_lines) }
        ensures kept { (self.new.routes ≡ self.old.routes) × (self.new.form ≡ self.old.form) × (self.new.changes ≡ self.old.changes)
            × (self.new.page ≡ self.old.page) × (self.new.repeats ≡ self.old.repeats) }
    {
        let following = Following::new(self.alloc, config, file)?;
        mem::drop(self.following.replace(following));
        Ok(())
    }

    /// Expects the routes to be on air that the configuration expects so from the start. `expected` has that of each of the watcher's
    /// routes, in their order; those that it leaves out aren't expected. Later configurations that are followed replace it.
    pub fn expect(&mut self, expected: &[bool])
        ensures expected { AreExpecting self.old.routes self.new.routes expected.now }
        ensures others { (self.new.machine ≡ self.old.machine) × (self.new.steering ≡ self.old.steering) × (self.new.losses ≡ self.old.losses)
            × (self.new.overview ≡ self.old.overview) × (self.new.first_lines ≡ self.old.first_lines) }
        ensures kept { (self.new.following ≡ self.old.following) × (self.new.form ≡ self.old.form) × (self.new.changes ≡ self.old.changes)
            × (self.new.page ≡ self.old.page) × (self.new.repeats ≡ self.old.repeats) }
    {
        self.routes.expect(expected);
    }

    /// Returns the name of the route with this index, closed or not; empty if there is none.
    pub fn name_of(&self, index: usize) -> &str
        ensures { result.now ≡ name_of self.now.routes index }
    {
        self.routes.name_of(index)
    }

    /// Adds a warning of the configuration, of at most 512 bytes, to be written after the first line. Allocates; the only
    /// error is out of memory.
    pub fn warn<D: Display + Drop>(&mut self, warning: D) -> Result<(), AllocError>
        ensures warnings { OnOk result (HasWarned (D.output warning) self.old.first_lines.warnings.items self.new.first_lines.warnings.items) }
        ensures start { self.new.first_lines.start ≡ self.old.first_lines.start }
        ensures others { (self.new.machine ≡ self.old.machine) × (self.new.steering ≡ self.old.steering) × (self.new.losses ≡ self.old.losses)
            × (self.new.overview ≡ self.old.overview) }
        ensures kept { (self.new.routes ≡ self.old.routes) × (self.new.following ≡ self.old.following) × (self.new.form ≡ self.old.form)
            × (self.new.changes ≡ self.old.changes) × (self.new.page ≡ self.old.page) × (self.new.repeats ≡ self.old.repeats) }
    {
        self.first_lines.warn(warning)
    }

    // Writes the first lines, once all threads run and all memory is allocated.
    fn begin(&mut self, when: When)
        requires { M.facts.was_moment when.moment }
        ensures course { self.new.steering.course ≡ begun self.old.steering.course when.moment self.old.steering.lasts }
        ensures lasts { self.new.steering.lasts ≡ None }
        ensures machine { M.says self.new.machine ≡ M.says self.old.machine }
        ensures others { (self.new.overview ≡ self.old.overview) × (self.new.losses ≡ self.old.losses) }
        ensures start { self.new.first_lines.start ≡ None }
        ensures logged { HasBegun (M.says self.old.machine) self.old.first_lines (W.contents self.old.changes.log.out.out)
            (W.contents self.new.changes.log.out.out) self.old.changes.log.pace self.new.changes.log.pace when (length self.old.routes.shown.items) }
        ensures kept { (self.new.routes ≡ self.old.routes) × (self.new.following ≡ self.old.following) × (self.new.form ≡ self.old.form)
            × (self.new.changes.counts ≡ self.old.changes.counts) × (self.new.page ≡ self.old.page) × (self.new.repeats ≡ self.old.repeats) }
    {
        log_first(
            &self.machine,
            &mut self.first_lines,
            &mut self.changes.log,
            when,
            self.routes.shown().len(),
        );
        self.steering.begin(when.moment);
    }

    // Notes the state of the run: the poller's counters and the socket's faults, and refusals that weren't reported.
    fn note_status(&mut self, moment: u64, status: RunStatus)
        ensures overview { self.new.overview ≡ with_report self.old.overview moment status }
        ensures losses { self.new.losses ≡ with_faults (with_missed self.old.losses status.missed) status.faults }
        ensures machine { M.says self.new.machine ≡ M.says self.old.machine }
        ensures others { (self.new.steering ≡ self.old.steering) × (self.new.first_lines ≡ self.old.first_lines) }
        ensures logged { Logged (W.contents self.old.changes.log.out.out) (W.contents self.new.changes.log.out.out)
            self.old.changes.log.pace self.new.changes.log.pace
            (Missed (more_missed self.old.losses status.missed) ∷ []) }
        ensures kept { (self.new.routes ≡ self.old.routes) × (self.new.following ≡ self.old.following) × (self.new.form ≡ self.old.form)
            × (self.new.changes.counts ≡ self.old.changes.counts) × (self.new.page ≡ self.old.page) × (self.new.repeats ≡ self.old.repeats) }
    {
        self.overview.note_poller(moment, status);
        self.changes
            .log
            .miss(self.losses.note_missed(status.missed));
        self.losses.note_faults(status.faults);
    }

    // Logs the socket's faults and the datagrams that the kernel dropped since the last such lines.
    fn log_losses(&mut self, when: When)
        ensures others { (self.new.steering ≡ self.old.steering) × (self.new.first_lines ≡ self.old.first_lines) }
        ensures machine { M.says self.new.machine ≡ M.says self.old.machine }
        ensures kept { (self.new.routes ≡ self.old.routes) × (self.new.following ≡ self.old.following) × (self.new.form ≡ self.old.form)
            × (self.new.changes.counts ≡ self.old.changes.counts) × (self.new.page ≡ self.old.page) × (self.new.repeats ≡ self.old.repeats) }
        ensures lost { HasLost (M.says self.old.machine) self.old.overview self.new.overview self.old.losses self.new.losses
            (W.contents self.old.changes.log.out.out) (W.contents self.new.changes.log.out.out) self.old.changes.log.pace self.new.changes.log.pace when }
    {
        log_drops(
            &self.machine,
            &mut self.overview,
            &mut self.losses,
            &mut self.changes.log,
            when,
        );
    }

    // Counts a conclusion that the lobby refused, and writes the line of one that it or a route refused, or counts it as one more of its
    // caller.
    fn note_refused(&mut self, when: When, refusal: &Refusal)
        ensures overview { self.new.overview ≡ after_refusal self.old.overview refusal.now }
        ensures logged { Logged (W.contents self.old.changes.log.out.out) (W.contents self.new.changes.log.out.out)
            self.old.changes.log.pace self.new.changes.log.pace
            (refused_calls (known_by self.old.repeats) when (requested_by self.old.routes refusal.now.name.items refusal.now.route) refusal.now) }
        ensures known { known_by self.new.repeats
            ≡ known_after (known_by self.old.repeats) when (requested_by self.old.routes refusal.now.name.items refusal.now.route) refusal.now }
        ensures others { (self.new.steering ≡ self.old.steering) × (self.new.first_lines ≡ self.old.first_lines) × (self.new.losses ≡ self.old.losses) }
        ensures kept { (self.new.routes ≡ self.old.routes) × (self.new.following ≡ self.old.following) × (self.new.form ≡ self.old.form)
            × (self.new.changes.counts ≡ self.old.changes.counts) × (self.new.page ≡ self.old.page) }
    {
        count_lobby_refusal(&mut self.overview, refusal);
        let name = requested_name(&self.routes, refusal);
        log_refused(
            &mut self.repeats,
            &mut self.changes.log,
            when,
            name,
            refusal,
        );
    }

    // Makes a turn at this time: writes the first lines and what the last second left out, notes the state of the run, and
    // looks whether the gateway is to stop.
    fn turn(&mut self, when: When, status: RunStatus)
        requires { M.facts.was_moment when.moment }
        ensures state { (self.new.overview ≡ with_report self.old.overview when.moment status)
            × (self.new.losses ≡ with_faults (with_missed self.old.losses status.missed) status.faults) × (self.new.first_lines.start ≡ None)
            × (self.new.steering.lasts ≡ None) }
        ensures machine { M.says self.new.machine ≡ M.says self.old.machine }
        ensures turned { HasTurned (M.says self.old.machine) self.old.first_lines self.old.losses self.old.steering.lasts self.old.steering.course
            self.new.steering.course (W.contents self.old.changes.log.out.out) (W.contents self.new.changes.log.out.out) self.old.changes.log.pace
            self.new.changes.log.pace when (length self.old.routes.shown.items) status }
        ensures kept { (self.new.routes ≡ self.old.routes) × (self.new.following ≡ self.old.following) × (self.new.form ≡ self.old.form)
            × (self.new.changes.counts ≡ self.old.changes.counts) × (self.new.page ≡ self.old.page) × (self.new.repeats ≡ self.old.repeats) }
    {
        self.begin(when);
        self.note_status(when.moment, status);
        self.changes.log.end_second(when);
        self.changes.log.look(when);
        check_stop(
            &self.machine,
            &mut self.steering,
            &mut self.changes.log,
            when,
        );
    }

    // Serves the page, with the last snapshots.
    fn serve_page(&mut self)
        ensures others { (self.new.steering ≡ self.old.steering) × (self.new.changes ≡ self.old.changes) × (self.new.first_lines ≡ self.old.first_lines)
            × (self.new.overview ≡ self.old.overview) × (self.new.losses ≡ self.old.losses) }
        ensures kept { (self.new.routes ≡ self.old.routes) × (self.new.following ≡ self.old.following) × (self.new.form ≡ self.old.form)
            × (self.new.page.version ≡ self.old.page.version) × (self.new.page.rested ≡ self.old.page.rested) × (self.new.repeats ≡ self.old.repeats) }
        ensures shown { ShowedPage M.facts (P.shown self.old.page.server) (P.shown self.new.page.server) self.old.overview self.old.changes.counts
            self.old.page.version self.old.routes.shown.items (used_of self.old.routes.routes.items) self.old.changes.log.events.events.items }
    {
        let moment = self.machine.moment();
        self.page.show(
            moment,
            &self.overview,
            self.changes.counts,
            &self.routes,
            self.changes.events(),
        );
    }

    /// Writes the last line, after the gateway's end. If the writer holds text that it couldn't write yet, rests until that is
    /// written too, for a second at most.
    pub fn end(&mut self)
        ensures kept { (self.new.routes ≡ self.old.routes) × (self.new.following ≡ self.old.following) × (self.new.form ≡ self.old.form)
            × (self.new.changes.counts ≡ self.old.changes.counts) × (self.new.page ≡ self.old.page) }
        ensures ended { ShowedAt (M.says self.old.machine) self.old.form (λ when. HasEnded (M.says self.old.machine)
            (is_stopping self.old.steering.course) self.old.losses (known_by self.old.repeats) (W.contents self.old.changes.log.out.out)
            (W.contents self.new.changes.log.out.out) self.old.changes.log.pace self.new.changes.log.pace when
            × HasClosed M.facts (most (when.moment + 1_000_000)) self.new.changes.log.out.refused self.new.changes.log.closing) }
    {
        let when = When::now(&mut self.machine, self.form);
        let by = rounds_unless(self.steering.is_stopping());
        log_stop(&mut self.changes.log, when, by);
        self.log_losses(when);
        log_repeats(&mut self.repeats, &mut self.changes.log, when, u64::MAX);
        self.changes.log.close(&mut self.machine, when);
    }
}

impl<M: Machine + Drop, W: Drop, P: Drop, F: ConfigFile + Drop> Answers
    for Watcher<'_, M, W, P, F> {
    ghost answered = { IsAnswer M.facts F.facts };
}

impl<M, W, P, F> Watch for Watcher<'_, M, W, P, F>
where
    M: Machine + Drop,
    W: Write + Drop,
    P: StatusServer + Drop,
    F: ConfigFile + Drop,
{
    fn next(&mut self, status: RunStatus) -> Order
        ensures answered { IsOrdered (IsAnswer M.facts F.facts) result }
        ensures turned { ShowedAt (M.says self.old.machine) self.old.form (λ when.
            (self.new.overview ≡ with_report self.old.overview when.moment status)
            × (self.new.losses ≡ with_faults (with_missed self.old.losses status.missed) status.faults)
            × (self.new.first_lines.start ≡ None)
            × (result ≡ order_of (stop_step self.new.steering.course.requested_at when.moment status.is_quiet))
            × HasTurned (M.says self.old.machine) self.old.first_lines self.old.losses self.old.steering.lasts self.old.steering.course
            self.new.steering.course (W.contents self.old.changes.log.out.out) (W.contents self.new.changes.log.out.out) self.old.changes.log.pace
            self.new.changes.log.pace when (length self.old.routes.shown.items) status) }
        ensures pages { ShowedTwice M.facts (P.awaits self.old.page.server) self.new.page.rested (P.shown self.old.page.server)
            (P.shown self.new.page.server) self.old.overview self.new.overview self.old.changes.counts self.old.page.version
            self.old.routes.shown.items (used_of self.old.routes.routes.items) self.old.changes.log.events.events.items
            self.new.changes.log.events.events.items }
        ensures kept { (self.new.routes ≡ self.old.routes) × (self.new.following ≡ self.old.following) × (self.new.form ≡ self.old.form)
            × (self.new.changes.counts ≡ self.old.changes.counts) × (self.new.page.version ≡ self.old.page.version)
            × (self.new.repeats ≡ self.old.repeats) × (self.new.steering.lasts ≡ None) }
    {
        self.page.rest(
            &mut self.machine,
            &self.overview,
            self.changes.counts,
            &self.routes,
            self.changes.events(),
        );
        let when = When::now(&mut self.machine, self.form);
        self.turn(when, status);
        self.serve_page();
        self.steering.order(when.moment, status.is_quiet)
    }

    fn wants_routes(&mut self) -> bool
        ensures course { ShowedAt (M.says self.old.machine) self.old.form (λ when. (result ≡ is_due self.old.steering.course when.moment)
            × (self.new.steering.course ≡ after_due self.old.steering.course when.moment)
            × HasLooked (M.says self.old.machine) self.old.overview self.new.overview self.old.losses self.new.losses (known_by self.old.repeats)
            (known_by self.new.repeats) (W.contents self.old.changes.log.out.out) (W.contents self.new.changes.log.out.out) self.old.changes.log.pace
            self.new.changes.log.pace when result) }
        ensures others { (self.new.first_lines ≡ self.old.first_lines) × (self.new.steering.lasts ≡ self.old.steering.lasts) }
        ensures kept { (self.new.routes ≡ self.old.routes) × (self.new.following ≡ self.old.following) × (self.new.form ≡ self.old.form)
            × (self.new.changes.counts ≡ self.old.changes.counts) × (self.new.page ≡ self.old.page) }
    {
        let when = When::now(&mut self.machine, self.form);
        if !self.steering.is_snapshot_due(when.moment) {
            return false;
        }
        self.log_losses(when);
        log_repeats(&mut self.repeats, &mut self.changes.log, when, when.moment);
        read_use(&self.machine, &mut self.overview);
        true
    }

    fn show_route(&mut self, index: usize, route: &Route)
        ensures shown { ShowedAt (M.says self.old.machine) self.old.form
            (HasShown self.old.routes self.new.routes index route.now (is_stopping self.old.steering.course)
            (W.contents self.old.changes.log.out.out) (W.contents self.new.changes.log.out.out) self.old.changes.log.pace self.new.changes.log.pace) }
        ensures others { (self.new.steering ≡ self.old.steering) × (self.new.first_lines ≡ self.old.first_lines) × (self.new.losses ≡ self.old.losses)
            × (self.new.overview ≡ self.old.overview) }
        ensures kept { (self.new.following ≡ self.old.following) × (self.new.form ≡ self.old.form)
            × (self.new.changes.counts ≡ self.old.changes.counts) × (self.new.page ≡ self.old.page) × (self.new.repeats ≡ self.old.repeats) }
    {
        let when = When::now(&mut self.machine, self.form);
        let stops = self.steering.is_stopping();
        show(
            &mut self.routes,
            &mut self.changes.log,
            when,
            stops,
            index,
            route,
        );
    }

    fn refused(&mut self, refusal: &Refusal)
        ensures overview { self.new.overview ≡ after_refusal self.old.overview refusal.now }
        ensures logged { ShowedAt (M.says self.old.machine) self.old.form (λ when. (known_by self.new.repeats
            ≡ known_after (known_by self.old.repeats) when (requested_by self.old.routes refusal.now.name.items refusal.now.route) refusal.now)
            × Logged (W.contents self.old.changes.log.out.out) (W.contents self.new.changes.log.out.out) self.old.changes.log.pace self.new.changes.log.pace
            (refused_calls (known_by self.old.repeats) when (requested_by self.old.routes refusal.now.name.items refusal.now.route) refusal.now)) }
        ensures others { (self.new.steering ≡ self.old.steering) × (self.new.first_lines ≡ self.old.first_lines) × (self.new.losses ≡ self.old.losses) }
        ensures kept { (self.new.routes ≡ self.old.routes) × (self.new.following ≡ self.old.following) × (self.new.form ≡ self.old.form)
            × (self.new.changes.counts ≡ self.old.changes.counts) × (self.new.page ≡ self.old.page) }
    {
        let when = When::now(&mut self.machine, self.form);
        self.note_refused(when, refusal);
    }

    fn change_routes<C: ChangeRoutes>(&mut self, run: &mut C)
        requires { (a : TheAnswer) → IsAnswer M.facts F.facts a → C.requires_of a }
        ensures polled { ShowedAt (M.says self.old.machine) self.old.form (λ when. HasPolled
            (option_map (λ f. file_with (F.says f.file.file) f.file.polling (option_map (λ v. v.items) f.file.content) f.in_force) self.old.following)
            (option_map (λ f. file_with (F.says f.file.file) f.file.polling (option_map (λ v. v.items) f.file.content) f.in_force) self.new.following)
            (C.asked run.old) (C.asked run.new) when self.old.routes self.new.routes
            (W.contents self.old.changes.log.out.out) (W.contents self.new.changes.log.out.out) self.old.changes.log.pace self.new.changes.log.pace
            self.old.changes.counts self.new.changes.counts) }
        ensures others { (self.new.steering ≡ self.old.steering) × (self.new.first_lines ≡ self.old.first_lines) × (self.new.losses ≡ self.old.losses)
            × (self.new.overview ≡ self.old.overview) }
        ensures kept { (self.new.form ≡ self.old.form) × (self.new.page ≡ self.old.page) × (self.new.repeats ≡ self.old.repeats) }
    {
        let when = When::now(&mut self.machine, self.form);
        let Some(following) = &mut self.following else {
            return;
        };
        following.follow(&mut self.changes, when, &mut self.routes, run);
    }
}

#[cfg(test)]
mod tests;
