//! The HTTP paths of the status page.

ghost use Rattle.std.specs.Prelude.{◌≡◌};
ghost use Rattle.srt_status.specs.Paths.{begins_query, is_for, page_in};

/// What can be asked for.
#[derive(Clone, Copy, PartialEq, Eq)]
pub enum Page {
    /// `/`: the page for people.
    Overview,
    /// `/status.json`: the same for programs.
    Json,
    /// `/metrics`: the figures in the text format of Prometheus.
    Metrics,
    /// `/events.json`: the last lines of the log.
    Events,
    /// `/history.json`: the last hour of each route.
    History,
    /// `/healthz`: whether the gateway works.
    Health,
}

/// Whether what is left of a target is a query, or nothing.
fn begins_query(rest: &[u8]) -> bool
    ensures { result ≡ begins_query rest.now }
{
    match rest {
        [] => true,
        [first, ..] => *first == b'?',
    }
}

/// Whether a target is this path, with or without a query.
fn is_for(path: &[u8], target: &[u8]) -> bool
    ensures { result ≡ is_for path.now target.now }
{
    if target.len() < path.len() {
        return false;
    }
    let (front, rest) = target.split_at(path.len());
    front == path && begins_query(rest)
}

/// The page of a target; None if it isn't here.
pub(crate) fn page_in(target: &[u8]) -> Option<Page>
    ensures { result ≡ page_in target.now }
{
    if is_for(b"/", target) {
        return Some(Page::Overview);
    }
    if is_for(b"/status.json", target) {
        return Some(Page::Json);
    }
    if is_for(b"/metrics", target) {
        return Some(Page::Metrics);
    }
    if is_for(b"/events.json", target) {
        return Some(Page::Events);
    }
    if is_for(b"/history.json", target) {
        return Some(Page::History);
    }
    if is_for(b"/healthz", target) {
        return Some(Page::Health);
    }
    None
}
