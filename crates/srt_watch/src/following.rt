//! How a watcher follows the configuration's file: the change that a changed file requests, and what becomes of it.

ghost use Rattle.std.specs.Prelude.{◌≡◌, ◌≤◌, ◌+◌, ℕ, true, false, IfOk, IfSome, None, is_some, option_map, map, length, vec_len, vec_capacity};
ghost use Rattle.srt_types.specs.Terms.{Terms, terms_of};
ghost use Rattle.srt_supervision.specs.Answers.{Closes, Opens};
ghost use Rattle.srt_watch.specs.Answers.{WasInForce, WasRead, IsToClose, IsToOpen};
ghost use Rattle.srt_watch.specs.ChangeLines.{one_taken};
ghost use Rattle.srt_watch.specs.Expecting.{IsExpecting};
ghost use Rattle.srt_watch.specs.Holding.{waits_for, waiting, held_calls, IsHeldConfig, look_of};
ghost use Rattle.srt_watch.specs.Indexes.{numbers_of};
ghost use Rattle.srt_watch.specs.Log.{Logged};
ghost use Rattle.srt_watch.specs.Openings.{AreOpening};
ghost use Rattle.srt_watch.specs.Polls.{first_polling, after_look};
ghost use Rattle.srt_watch.specs.Requests.{config_of, first_indexes};
ghost use Rattle.srt_watch.specs.Following.{IsTaken, IsRequested, IsFollowed, closes_of, opens_of};
ghost use Rattle.srt_watch.specs.Outcomes.{made_calls, IsAnnounced, file_with, HasFound, HasTold};

use crate::change_log::ChangeLog;
use crate::config_file::ConfigFile;
use crate::in_force::{InForce, NotTaken, Wanted};
use crate::log::When;
use crate::prepared_change::PreparedChange;
use crate::watched_file::{News, WatchedFile};
use crate::watched_routes::WatchedRoutes;
use srt_config::Config;
use srt_supervision::{ChangeRoutes, RouteChanges};
use std::alloc::{AllocError, Global};
use std::io::Write;

// A change with the memory that it needs here, and what is requested of the run.
#[derive(Drop)]
struct Requested {
    change: PreparedChange,
    changes: RouteChanges,
}

// A configuration that was read, and that may be taken.
#[derive(Drop)]
struct Found {
    wanted: Wanted,
    // its content was held for five seconds, and is the same
    was_held: bool,
}

/// The configuration that the gateway follows.
#[derive(Drop)]
pub(crate) struct Following<'a, F: ConfigFile + Drop> {
    alloc: Global,
    file: WatchedFile<F>,
    in_force: InForce<'a>,
    ghost known: { ∥ WasInForce F.facts in_force ∥₁ },
}

impl<'a, F: ConfigFile + Drop> Following<'a, F> {
    /// Of a run that begins with the routes of this configuration, which was read from the file. The file is first polled
    /// a second later. Allocates a list of the routes' indexes; the only error is out of memory.
    pub(crate) fn new(
        alloc: Global,
        config: &'a Config,
        file: F,
    ) -> Result<Following<'a, F>, AllocError>
        requires { F.facts.was_first config.now }
        ensures config { IfOk result (λ f. config_of f.in_force ≡ config.now) }
        ensures indexes { IfOk result (λ f. f.in_force.indexes.items ≡ first_indexes (length config.now.entries.items)) }
        ensures file { IfOk result (λ f. (f.file.file ≡ file) × (f.file.polling ≡ first_polling) × (f.file.content ≡ None)) }
    {
        Ok(Following {
            alloc,
            file: WatchedFile::new(file),
            in_force: InForce::new(alloc, config)?,
        })
    }

    // Polls the file, once a second. None if it has nothing new.
    fn poll(&mut self, moment: u64) -> Option<Result<Found, NotTaken>>
        ensures in_force { self.new.in_force ≡ self.old.in_force }
        ensures file { self.new.file.file ≡ self.old.file.file }
        ensures wanted { IfSome result (λ found. IfOk found (λ f. WasRead F.facts self.old.in_force f.wanted)) }
        ensures found { HasFound (F.says self.old.file.file) self.old.file.polling (option_map (λ v. v.items) self.old.file.content)
            (option_map (λ v. v.items) self.new.file.content) moment self.old.in_force result }
        ensures polling { IfSome (F.says self.old.file.file) (λ s. self.new.file.polling
            ≡ after_look self.old.file.polling moment (option_map (λ v. v.items) self.old.file.content) s) }
        ensures held { IfSome result (λ found. IfOk found (λ f. f.was_held ≡ true →
            IsHeldConfig self.old.file.polling moment (option_map (λ v. v.items) self.old.file.content) f.wanted.config)) }
    {
        match self.file.poll(moment)? {
            Ok(News { content, was_held }) => {
                let wanted = self.in_force.wanted(self.alloc, content.as_slice());
                self.file.keep(content);
                match wanted {
                    Ok(wanted) => Some(Ok(Found { wanted, was_held })),
                    Err(not_taken) => Some(Err(not_taken)),
                }
            }
            Err(why) => Some(Err(NotTaken::Unread(why))),
        }
    }

    // Returns the index of a route that a configuration closes, and that has sessions; none if the configuration was held.
    fn waits_for(&self, routes: &WatchedRoutes, found: &Found) -> Option<usize>
        ensures { result ≡ waits_for found.now.was_held routes.now self.now.in_force found.now.wanted }
    {
        if found.was_held {
            return None;
        }
        routes.first_used(
            self.in_force.indexes(),
            found.wanted.changes.gone.as_slice(),
        )
    }

    // Holds a configuration for five seconds if it closes a route with sessions, unless it was held, and logs that. Returns
    // whether it is held.
    #[tactic(auto, using(crate::proofs::Logging::logged_nothing))]
    fn holds<W: Write + Drop>(
        &mut self,
        log: &mut ChangeLog<W>,
        when: When,
        routes: &WatchedRoutes,
        found: &Found,
    ) -> bool
        ensures in_force { self.new.in_force ≡ self.old.in_force }
        ensures file { (self.new.file.file ≡ self.old.file.file) × (self.new.file.content ≡ self.old.file.content) }
        ensures result { result ≡ is_some (waits_for found.now.was_held routes.now self.old.in_force found.now.wanted) }
        ensures polling { self.new.file.polling
            ≡ waiting (waits_for found.now.was_held routes.now self.old.in_force found.now.wanted) self.old.file.polling when.moment }
        ensures counts { log.new.counts ≡ log.old.counts }
        ensures logged { Logged (W.contents log.old.log.out.out) (W.contents log.new.log.out.out) log.old.log.pace log.new.log.pace
            (held_calls when routes.now (waits_for found.now.was_held routes.now self.old.in_force found.now.wanted)) }
        ensures other { result ≡ false → log.new ≡ log.old }
    {
        let Some(index) = self.waits_for(routes, found) else {
            return false;
        };
        log.held(when, routes.name_of(index));
        self.file.hold(when.moment);
        true
    }

    // Puts the configuration in force whose change the run made, and logs it. Routes opened from the index `first` on.
    fn note_made<W: Write + Drop>(
        &mut self,
        log: &mut ChangeLog<W>,
        when: When,
        routes: &mut WatchedRoutes,
        change: PreparedChange,
        first: usize,
    )
        requires read { WasRead F.facts self.old.in_force change.wanted }
        requires room { vec_len routes.old.routes + length change.room.opening.items ≤ vec_capacity routes.old.routes }
        requires numbers { change.numbers ≡ numbers_of change.wanted.changes.gone.items change.wanted.changes.routes.items }
        ensures file { self.new.file ≡ self.old.file }
        ensures taken { IsTaken self.old.in_force self.new.in_force change.wanted first }
        ensures counts { log.new.counts ≡ one_taken log.old.counts }
        ensures routes { IsExpecting routes.old routes.new change.wanted.changes.routes.items self.new.in_force.indexes.items change.room.opening.items
            change.wanted.config.expected.items }
        ensures logged { Logged (W.contents log.old.log.out.out) (W.contents log.new.log.out.out) log.old.log.pace log.new.log.pace
            (made_calls when self.old.in_force change.wanted first routes.old routes.new) }
    {
        let before = routes.used();
        log.taken(when, &change, self.in_force.config(), first);
        change.put_in_force(self.alloc, first, &mut self.in_force, routes);
        log.few_indexes(when, before, routes.used());
    }

    // Puts the configuration in force at once, without a line, if no route opens or closes. Otherwise requests its change of
    // the run.
    fn request<W: Write + Drop, C: ChangeRoutes>(
        &mut self,
        log: &mut ChangeLog<W>,
        when: When,
        routes: &mut WatchedRoutes,
        run: &mut C,
        requested: Requested,
    )
        requires closings { (r : ℕ) → ∥ IsToClose F.facts r ∥₁ → C.requires_of (Closes r) }
        requires openings { (t : Terms) → ∥ IsToOpen F.facts t ∥₁ → C.requires_of (Opens t) }
        requires read { WasRead F.facts self.old.in_force requested.change.wanted }
        requires numbers { requested.change.numbers ≡ numbers_of requested.change.wanted.changes.gone.items requested.change.wanted.changes.routes.items }
        requires room { vec_len routes.old.routes + length requested.change.room.opening.items ≤ vec_capacity routes.old.routes }
        requires closes { requested.changes.closes.items ≡ closes_of self.old.in_force requested.change.wanted }
        requires opens { map terms_of requested.changes.opens.items ≡ opens_of requested.change.wanted }
        requires opening { AreOpening (opens_of requested.change.wanted) requested.change.room.opening.items }
        ensures file { self.new.file ≡ self.old.file }
        ensures requested { IsRequested self.old.in_force self.new.in_force requested.change.wanted (C.asked run.old) (C.asked run.new) }
        ensures announced { IsAnnounced self.old.in_force self.new.in_force requested.change.wanted (C.asked run.old) (C.asked run.new) when
            routes.old routes.new (W.contents log.old.log.out.out) (W.contents log.new.log.out.out) log.old.log.pace log.new.log.pace
            log.old.counts log.new.counts }
    {
        let Requested { change, changes } = requested;
        if change.changes_nothing() {
            let first = routes.used();
            change.put_in_force(self.alloc, first, &mut self.in_force, routes);
            return;
        }
        match run.change(changes) {
            Ok(first) => self.note_made(log, when, routes, change, first),
            Err(fault) => log.rejected(when, &change, fault),
        }
    }

    /// Polls the file. Requests the change of a new configuration of the run, and puts it in force once the run has made
    /// it. Logs the outcome and counts it; after a fault the configuration in force stays.
    pub(crate) fn follow<W: Write + Drop, C: ChangeRoutes>(
        &mut self,
        log: &mut ChangeLog<W>,
        when: When,
        routes: &mut WatchedRoutes,
        run: &mut C,
    )
        requires closings { (r : ℕ) → ∥ IsToClose F.facts r ∥₁ → C.requires_of (Closes r) }
        requires openings { (t : Terms) → ∥ IsToOpen F.facts t ∥₁ → C.requires_of (Opens t) }
        ensures followed { IsFollowed
            (look_of self.old.file.polling when.moment (option_map (λ v. v.items) self.old.file.content) routes.old)
            self.old.in_force self.new.in_force (C.asked run.old) (C.asked run.new) }
        ensures told { HasTold
            (file_with (F.says self.old.file.file) self.old.file.polling (option_map (λ v. v.items) self.old.file.content) self.old.in_force)
            (file_with (F.says self.new.file.file) self.new.file.polling (option_map (λ v. v.items) self.new.file.content) self.new.in_force)
            (C.asked run.old) (C.asked run.new) when routes.old routes.new
            (W.contents log.old.log.out.out) (W.contents log.new.log.out.out) log.old.log.pace log.new.log.pace log.old.counts log.new.counts }
    {
        let found = match self.poll(when.moment) {
            Some(Ok(found)) => found,
            Some(Err(not_taken)) => {
                log.not_taken(when, &not_taken);
                return;
            }
            None => return,
        };
        if self.holds(log, when, routes, &found) {
            return;
        }
        let Found { wanted, .. } = found;
        match PreparedChange::of(self.alloc, &self.in_force, routes, wanted) {
            Ok((change, changes)) => {
                self.request(log, when, routes, run, Requested { change, changes });
            }
            Err(no_room) => log.no_room(when, &no_room),
        }
    }
}
