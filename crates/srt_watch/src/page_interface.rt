//! Where a watcher shows the status.

use srt_status::{EventRing, GatewayStatus, RouteStatus};

/// A server of the status page.
pub trait StatusServer {
    ghost use Rattle.std.specs.Prelude.{◌≡◌, Bool, List, [], ◌∷◌, Option, None, IfSome};
    ghost use Rattle.srt_watch.specs.Pages.{ShownPage, page, with_pages};

    /// What it was given to serve, the oldest first, or `None` for a server that doesn't record it.
    ghost shown: { Self → Option (List ShownPage) } = { λ _. None };

    /// Whether a client is connected, or `None` for a server that doesn't tell.
    ghost awaits: { Self → Option Bool } = { λ _. None };

    /// Whether a client is connected, so that the watcher rests for shorter times.
    fn is_awaited(&self) -> bool
        ensures { IfSome (awaits self.now) (λ a. result ≡ a) };

    /// Responds to pending requests, without waiting. Called after each rest of the watcher, with the last snapshots and the
    /// last lines of the log.
    fn serve(&mut self, gateway: &GatewayStatus<'_>, routes: &[RouteStatus], events: &EventRing)
        ensures { shown self.new ≡ with_pages (shown self.old) (page gateway.now routes.now events.now.events.items ∷ []) };
}

/// No page.
#[derive(Clone, Copy, Drop)]
pub struct NoStatusServer;

impl StatusServer for NoStatusServer {
    fn is_awaited(&self) -> bool {
        false
    }

    fn serve(
        &mut self,
        _gateway: &GatewayStatus<'_>,
        _routes: &[RouteStatus],
        _events: &EventRing,
    ) {}
}
