//! The status page, and the rests of the watcher, in which the page is served.

ghost use Rattle.std.specs.Prelude.{◌≡◌, ◌<◌, [], ◌∷◌};
ghost use Rattle.srt_watch.specs.Pages.{page_at, with_pages, ShowedPage, HasRested};
ghost use Rattle.srt_watch.specs.Rests.{with_pause};
ghost use Rattle.srt_watch.specs.Routes.{used_of};

use crate::machine::Machine;
use crate::overview::Overview;
use crate::page_interface::StatusServer;
use crate::rests::Rests;
use crate::watched_routes::WatchedRoutes;
use srt_status::{ChangeCounts, EventRing};

/// The most pauses in place of a rest, while a client is connected to the page, and the time after which they end, in
/// microseconds. A response may take longer than a pause.
const MAX_PAUSES: u32 = 20;

const MAX_PAUSING: u64 = 20_000;

/// The status page of a program with this version.
#[derive(Drop)]
pub(crate) struct Page<P: Drop> {
    pub(crate) server: P,
    version: &'static str,
    // how the watcher rested last; nothing reads it after that
    rested: Rests,
}

impl<P: StatusServer + Drop> Page<P> {
    pub(crate) fn new(server: P, version: &'static str) -> Page<P>
        ensures server { result.server ≡ server }
        ensures version { result.version ≡ version.entry }
    {
        Page {
            server,
            version,
            rested: Rests::none(),
        }
    }

    /// Serves the page, with the last snapshots and the last lines of the log.
    pub(crate) fn show(
        &mut self,
        moment: u64,
        overview: &Overview,
        counts: ChangeCounts,
        routes: &WatchedRoutes,
        events: &EventRing,
    )
        ensures version { self.new.version ≡ self.old.version }
        ensures rested { self.new.rested ≡ self.old.rested }
        ensures shown { P.shown self.new.server ≡ with_pages (P.shown self.old.server)
            (page_at overview.now counts self.old.version routes.now.shown.items (used_of routes.now.routes.items)
            events.now.events.items moment ∷ []) }
    {
        let shown = routes.shown();
        let changes = ChangeCounts {
            indexes: routes.used() as u64,
            ..counts
        };
        let gateway = overview.status(self.version, moment, shown.len(), changes);
        self.server.serve(&gateway, shown, events);
    }

    // Rests for a millisecond, and serves the page. Returns the time.
    fn pause<M: Machine>(
        &mut self,
        machine: &mut M,
        overview: &Overview,
        counts: ChangeCounts,
        routes: &WatchedRoutes,
        events: &EventRing,
    ) -> u64
        requires { self.old.rested.pauses < 1_000 }
        ensures version { self.new.version ≡ self.old.version }
        ensures machine { M.says machine.new ≡ M.says machine.old }
        ensures rested { self.new.rested ≡ with_pause self.old.rested }
        ensures known { M.facts.was_moment result }
        ensures shown { ShowedPage M.facts (P.shown self.old.server) (P.shown self.new.server) overview.now counts self.old.version routes.now.shown.items
            (used_of routes.now.routes.items) events.now.events.items }
    {
        self.rested.pause(machine);
        let moment = machine.moment();
        self.show(moment, overview, counts, routes, events);
        machine.moment()
    }

    /// Rests. While a client is connected to the page, rests by pauses, and serves the page after each.
    #[tactic(auto, using(crate::proofs::PagesShown::showed_none, crate::proofs::PagesShown::showed_next, crate::proofs::PagesShown::rested_once))]
    pub(crate) fn rest<M: Machine>(
        &mut self,
        machine: &mut M,
        overview: &Overview,
        counts: ChangeCounts,
        routes: &WatchedRoutes,
        events: &EventRing,
    )
        ensures version { self.new.version ≡ self.old.version }
        ensures machine { M.says machine.new ≡ M.says machine.old }
        ensures rested { HasRested M.facts (P.awaits self.old.server) self.new.rested (P.shown self.old.server) (P.shown self.new.server) overview.now counts
            self.old.version routes.now.shown.items (used_of routes.now.routes.items) events.now.events.items }
    {
        self.rested = Rests::none();
        let is_awaited = self.server.is_awaited();
        if !is_awaited {
            self.rested.rest(machine);
            return;
        }
        let began = machine.moment();
        let ends = began.saturating_add(MAX_PAUSING);
        while self.rested.pauses() < MAX_PAUSES {
            let moment = self.pause(machine, overview, counts, routes, events);
            if moment >= ends {
                return;
            }
        }
    }
}
