//! The end of a file, on a route for libsrt callers: how a publisher's session ended, and which subscribers have
//! everything that it sent in buffer mode.

ghost use Rattle.std.specs.Prelude.{◌≡◌, ℕ, Some, map, true, false};
ghost use Rattle.srt_route.specs.Seats.{has_publisher};
ghost use Rattle.srt_route.specs.Sessions.{of_libsrt, silent_end, with_end};
ghost use Rattle.srt_route.specs.Route.{sends_files};
ghost use Rattle.srt_route.specs.Tables.{seat_with_end};
ghost use Rattle.srt_route.specs.inside.Calls.{TableBecomes};
ghost use Rattle.srt_route.specs.inside.Files.{HasWhole, IsOver, shutdown_end};

use crate::seat::Seat;
use crate::table::Table;
use srt_pub::PubEnd;
use srt_types::{Callers, Mode};

/// Returns `end` on a route for libsrt callers, and None where the callers follow the draft.
pub fn of_libsrt(callers: Callers, end: Option<bool>) -> Option<bool>
    ensures { result ≡ of_libsrt callers end }
{
    match callers {
        Callers::Draft => None,
        Callers::Libsrt => end,
    }
}

/// Whether publishers' sessions ended by silence, from their number before and after: `Some(false)`, since no SHUTDOWN
/// of their own ended them.
pub fn silent_end(before: usize, after: usize) -> Option<bool>
    ensures { result ≡ silent_end before after }
{
    if after < before { Some(false) } else { None }
}

/// Whether a packet ended a publisher's session, and if so whether it was its own SHUTDOWN.
pub fn shutdown_end(end: Option<PubEnd>) -> Option<bool>
    ensures { result ≡ shutdown_end end }
{
    match end {
        Some(PubEnd::Shutdown) => Some(true),
        Some(PubEnd::WindowLost) => Some(false),
        None => None,
    }
}

impl Seat {
    /// Records how a publisher's session ended, in the session that is open here, if one is.
    fn note_end(&mut self, by_shutdown: bool)
        ensures { self.new ≡ seat_with_end by_shutdown self.old }
    {
        if let Some(session) = &mut self.session {
            session.part = session.part.with_end(by_shutdown);
        }
    }

    /// Whether a subscriber's session is open here that has the whole file, if no publisher is open (`over`): it was
    /// open when the last publisher's session ended by its own SHUTDOWN, and has acknowledged all that was queued.
    pub fn has_whole_file(&self, over: bool) -> bool
        ensures whole { HasWhole over self.now result }
        ensures reads { result ≡ true → has_publisher self.now ≡ false }
    {
        if !over {
            return false;
        }
        match &self.session {
            Some(session) => {
                if !session.part.saw_end() {
                    return false;
                }
                self.subscriber.is_all_acknowledged()
            }
            None => false,
        }
    }
}

/// Records how a publisher's session ended, in each open session.
fn note_each(table: &mut Table, by_shutdown: bool)
    ensures { (clock : ℕ) → TableBecomes clock table.old table.new (λ e. map (with_end (Some by_shutdown))) }
{
    for at in 0..table.seats.len() {
        table.seats[at].note_end(by_shutdown);
    }
}

/// Records how a publisher's session ended, if one ended, in each open session.
pub fn note_end(table: &mut Table, end: Option<bool>)
    ensures { (clock : ℕ) → TableBecomes clock table.old table.new (λ e. map (with_end end)) }
{
    match end {
        Some(by_shutdown) => note_each(table, by_shutdown),
        None => {}
    }
}

/// Whether a route for these callers, in this mode, signals the end of a file.
fn sends_files(callers: Callers, mode: Mode) -> bool
    ensures { result ≡ sends_files callers mode }
{
    match callers {
        Callers::Draft => false,
        Callers::Libsrt => match mode {
            Mode::Live => false,
            Mode::Buffer => true,
        },
    }
}

/// Whether the file is complete: no publisher is open any more, in buffer mode, on a route for libsrt callers.
pub fn is_file_over(table: &Table) -> bool
    ensures { IsOver table.now result }
{
    if !sends_files(table.rules.callers, table.mode) {
        return false;
    }
    table.open_publishers == 0
}
