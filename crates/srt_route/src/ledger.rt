//! What a route keeps of the past: the session that ended last in each slot, the sums of the counts of ended sessions,
//! and how many sessions opened and conclusions were refused. It is kept apart from the sessions, so that nothing else
//! that an event does can change it. It is written only when a session opens or ends or a conclusion is refused.

ghost use Rattle.std.specs.Prelude.{◌≡◌, ◌<◌, ℕ, None, Some, length, slice_set};
ghost use Rattle.srt_packet.specs.View.{body_of};
ghost use Rattle.srt_route.specs.Tallies.{no_tally, tally_of};
ghost use Rattle.srt_route.specs.Totals.{no_totals, with_traffic};
ghost use Rattle.srt_route.specs.Ledgers.{cause_of, closed_cause, drained_cause, entry_of, file_cause, idle_cause, heard_at_end, refused_by};
ghost use Rattle.srt_route.specs.Ledgers.{refused_for, with_opening, with_refusal, shutdown_cause};
ghost use Rattle.srt_route.specs.inside.Notes.{Notes, NotesBy, NotesEach};

use crate::publisher_buffers::PublisherBuffers;
use crate::refusals::RefusalCause;
use crate::standby::active_buffers;
use crate::table::Table;
use crate::totals::Totals;
use crate::view::SessionView;
use srt_hs::RefusalCode;
use srt_packet::Kind;
use srt_pub::PubEnd;
use srt_types::product_limits::MAX_SESSIONS;

/// Why a session ended.
#[derive(Clone, Copy, Debug, PartialEq, Eq)]
pub enum EndCause {
    /// Its peer sent a SHUTDOWN (section 3.2.7).
    Shutdown,
    /// Its peer sent nothing for five seconds, or a subscriber didn't confirm its next key for five seconds (our choice).
    Silence,
    /// A publisher's in live mode: its sequence numbers ran past a window that had nothing more to deliver.
    WindowLost,
    /// Its route was closed.
    Closed,
    /// A subscriber's in buffer mode, on a route for libsrt callers: it acknowledged the whole of a complete file.
    FileEnded,
    /// A publisher's on a route for libsrt callers: its peer sent a SHUTDOWN, and all that was received was delivered.
    Drained,
    /// A publisher's on a route for libsrt callers: its peer sent a SHUTDOWN, and not all was delivered in time.
    DrainedTooLong,
}

/// A session that ended.
#[derive(Clone, Copy, Debug)]
pub struct EndedSession {
    /// A snapshot of the session at its end, including the packet that ended it.
    pub view: SessionView,
    /// Why it ended.
    pub cause: EndCause,
    /// The time of its end, in microseconds of the route's clock.
    pub moment: u64,
}

/// Conclusions that a route refused, by cause. Each count saturates at 2^64 - 1.
#[derive(Clone, Copy)]
pub(crate) struct Refusals {
    /// 1002: a third publisher.
    pub peer: u64,
    /// 1003: no slot is free.
    pub resource: u64,
    /// 1004: the MTU or the flow window.
    pub rogue: u64,
    /// 1012: the flag STREAM doesn't match the route's mode.
    pub message_api: u64,
    /// 1003: the address has as many open sessions as it may have.
    pub address: u64,
    /// 1003: the free slots are reserved for publishers.
    pub reserved: u64,
    /// 1010: the keys can't be unwrapped.
    pub secret: u64,
}

/// What a route keeps of ended sessions and of refusals.
#[derive(Drop)]
pub(crate) struct Ledger {
    /// The session that ended last in each slot.
    pub ended: [Option<EndedSession>; MAX_SESSIONS],
    /// The sums of the counts of ended sessions.
    pub totals: Totals,
    /// Sessions that opened: saturates at 2^64 - 1.
    pub opened: u64,
    /// Conclusions that were refused.
    pub refusals: Refusals,
}

/// Returns the cause for which a packet ended a publisher's session, if it did.
pub(crate) fn cause_of(end: Option<PubEnd>) -> Option<EndCause>
    ensures { result ≡ cause_of end }
{
    match end {
        Some(PubEnd::Shutdown) => Some(EndCause::Shutdown),
        Some(PubEnd::WindowLost) => Some(EndCause::WindowLost),
        None => None,
    }
}

/// Returns the cause for which a packet of this kind ends a subscriber's session, if it does.
pub(crate) fn shutdown_cause(kind: &Kind<'_>) -> Option<EndCause>
    ensures { result ≡ shutdown_cause (body_of kind.now) }
{
    match kind {
        Kind::Shutdown => Some(EndCause::Shutdown),
        _ => None,
    }
}

/// Returns the cause of a subscriber's end if it has the whole file.
pub(crate) fn file_cause(whole: bool) -> Option<EndCause>
    ensures { result ≡ file_cause whole }
{
    if whole {
        Some(EndCause::FileEnded)
    } else {
        None
    }
}

/// Returns the cause of a draining session's end if nothing is left.
pub(crate) fn drained_cause(ends: bool) -> Option<EndCause>
    ensures { result ≡ drained_cause ends }
{
    if ends { Some(EndCause::Drained) } else { None }
}

/// Returns when the peer of an ended session was last heard: if a packet ended the session, the time of its end.
fn heard_at_end(cause: EndCause, heard: u64, moment: u64) -> u64
    ensures { result ≡ heard_at_end cause heard moment }
{
    match cause {
        EndCause::Shutdown => moment,
        EndCause::WindowLost => moment,
        EndCause::Silence => heard,
        EndCause::Closed => heard,
        EndCause::FileEnded => heard,
        EndCause::Drained => heard,
        EndCause::DrainedTooLong => heard,
    }
}

impl Ledger {
    /// Returns a ledger without ended sessions, with all counts 0.
    pub fn new() -> Ledger
        ensures ended { (at : ℕ) → entry_of result at ≡ None }
        ensures tally { tally_of result ≡ no_tally }
        ensures totals { result.totals ≡ no_totals }
    {
        Ledger {
            ended: [None; MAX_SESSIONS],
            totals: Totals::none(),
            opened: 0,
            refusals: Refusals {
                peer: 0,
                resource: 0,
                rogue: 0,
                message_api: 0,
                address: 0,
                reserved: 0,
                secret: 0,
            },
        }
    }

    /// Counts a session that opened.
    pub fn open(&mut self)
        ensures { self.new ≡ with_opening self.old }
    {
        self.opened = self.opened.saturating_add(1);
    }

    /// Counts a conclusion that was refused for this cause.
    pub fn refuse(&mut self, cause: RefusalCause)
        ensures { self.new ≡ with_refusal cause self.old }
    {
        let refusals = &mut self.refusals;
        match cause {
            RefusalCause::Peer => refusals.peer = refusals.peer.saturating_add(1),
            RefusalCause::Address => refusals.address = refusals.address.saturating_add(1),
            RefusalCause::Resource => refusals.resource = refusals.resource.saturating_add(1),
            RefusalCause::Reserved => refusals.reserved = refusals.reserved.saturating_add(1),
            RefusalCause::Rogue => refusals.rogue = refusals.rogue.saturating_add(1),
            RefusalCause::MessageApi => {
                refusals.message_api = refusals.message_api.saturating_add(1)
            }
            RefusalCause::Secret => refusals.secret = refusals.secret.saturating_add(1),
        }
    }

    /// Returns the number of conclusions refused for this cause.
    pub fn refused_for(&self, cause: RefusalCause) -> u64
        ensures { result ≡ refused_for cause self.now.refusals }
    {
        match cause {
            RefusalCause::Peer => self.refusals.peer,
            RefusalCause::Address => self.refusals.address,
            RefusalCause::Resource => self.refusals.resource,
            RefusalCause::Reserved => self.refusals.reserved,
            RefusalCause::Rogue => self.refusals.rogue,
            RefusalCause::MessageApi => self.refusals.message_api,
            RefusalCause::Secret => self.refusals.secret,
        }
    }

    /// Returns the number of conclusions refused with this code; 0 for a code that a route never sends.
    pub fn refused(&self, code: RefusalCode) -> u64
        ensures { result ≡ refused_by code self.now.refusals }
    {
        match code {
            RefusalCode::Peer => self.refusals.peer,
            RefusalCode::Resource => self
                .refusals
                .resource
                .saturating_add(self.refusals.address)
                .saturating_add(self.refusals.reserved),
            RefusalCode::Rogue => self.refusals.rogue,
            RefusalCode::MessageApi => self.refusals.message_api,
            RefusalCode::BadSecret => self.refusals.secret,
            RefusalCode::Version => 0,
            RefusalCode::Unsecure => 0,
            RefusalCode::Filter => 0,
            RefusalCode::Group => 0,
        }
    }

    /// Keeps an ended session as the last one of its slot, and adds its counts to the sums.
    fn put(&mut self, at: usize, session: EndedSession)
        requires { at < 17 }
        ensures { self.new
            ≡ record {
              ended = slice_set self.old.ended at (Some session);
              totals = with_traffic session.view.traffic self.old.totals;
              opened = self.old.opened;
              refusals = self.old.refusals;
            } }
    {
        self.totals = self.totals.with(&session.view.traffic);
        self.ended[at] = Some(session);
    }

    /// Keeps the session of this slot as one that ends now for this cause, and adds its counts to the sums. The active
    /// publisher has the buffers `active`.
    #[inline(never)]
    fn keep(
        &mut self,
        table: &Table,
        active: Option<PublisherBuffers>,
        at: usize,
        cause: EndCause,
        moment: u64,
    )
        requires { at < length table.now.seats.items }
        ensures { NotesBy active at (Some cause) moment table.now self.old self.new }
    {
        let Some(view) = table.look_by(active, at) else {
            return;
        };
        let mut view = view;
        view.heard = heard_at_end(cause, view.heard, moment);
        self.put(
            at,
            EndedSession {
                view,
                cause,
                moment,
            },
        );
    }

    /// Records that the session of this slot ends now, if there is a cause.
    #[inline(always)]
    pub fn note(&mut self, table: &Table, at: usize, cause: Option<EndCause>, moment: u64)
        requires { at < length table.now.seats.items }
        ensures { Notes at cause moment table.now self.old self.new }
    {
        if let Some(cause) = cause {
            self.keep(table, active_buffers(table), at, cause, moment);
        }
    }

    /// Records that the session of this slot ends now, if there is a cause, where the active publisher has the buffers
    /// `active`.
    #[inline(always)]
    pub fn note_by(
        &mut self,
        table: &Table,
        active: Option<PublisherBuffers>,
        at: usize,
        cause: Option<EndCause>,
        moment: u64,
    )
        requires { at < length table.now.seats.items }
        ensures { NotesBy active at cause moment table.now self.old self.new }
    {
        if let Some(cause) = cause {
            self.keep(table, active, at, cause, moment);
        }
    }

    /// Records the end of each session that has expired at this clock, before any of them ends.
    pub fn note_idle(&mut self, table: &Table, clock: u64)
        ensures { NotesEach (idle_cause clock) clock table.now self.old self.new }
    {
        for at in 0..table.seats.len() {
            self.note(table, at, table.seats[at].end_by_time(clock), clock);
        }
    }

    /// Records the end of every open session of a route that is closed now, before any of them ends.
    pub fn note_closed(&mut self, table: &Table, clock: u64)
        ensures { NotesEach closed_cause clock table.now self.old self.new }
    {
        for at in 0..table.seats.len() {
            self.note(table, at, Some(EndCause::Closed), clock);
        }
    }
}
