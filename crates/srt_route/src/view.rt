//! Snapshots of a route: its open sessions and their counts. A snapshot changes nothing.

ghost use Rattle.std.specs.Prelude.{◌≡◌, ◌<◌, ℕ, List, length, option_map};
ghost use Rattle.srt_types.specs.Terms.{Terms};
ghost use Rattle.srt_types.specs.Items.{Item as TheItem};
ghost use Rattle.srt_route.specs.Route.{after};
ghost use Rattle.srt_route.specs.Sessions.{Session};
ghost use Rattle.srt_route.specs.Stands.{stands};
ghost use Rattle.srt_route.specs.Tables.{IsTable};
ghost use Rattle.srt_route.specs.Ledgers.{ended_in, opened_in, refused_in, refused_of};
ghost use Rattle.srt_route.specs.Totals.{AddUp, totals_of_ended, with_shown};
ghost use Rattle.srt_route.specs.ShownKeys.{ShowsKeys, with_key_length};
ghost use Rattle.srt_route.specs.Viewing.{delay_of, latency_in, ShowsSlot, ShowsSession, TellsTraffic};
ghost use Rattle.srt_route.specs.inside.Notes.{SeesSlot};

use crate::ledger::EndedSession;
use crate::publisher_buffers::PublisherBuffers;
use crate::refusals::RefusalCause;
use crate::route::Route;
use crate::stage::Stage;
use crate::standby::{active_buffers, is_active_by};
use crate::table::Table;
use crate::totals::Totals;
use srt_hs::{AnswerKind, HsAnswer, RefusalCode};
use srt_pub::Publisher;
use srt_sub::Subscriber;
use srt_types::{KeyLength, Peer, Role};

/// The state of a session's buffers and its counts, by its role.
#[derive(Clone, Copy, Debug, PartialEq, Eq)]
pub enum Traffic {
    /// Of a publisher's session: what was received and what was delivered.
    Received(srt_pub::Statistics),
    /// Of a subscriber's session: what was queued and what was sent.
    Sent(srt_sub::Statistics),
}

/// A snapshot of an open session.
#[derive(Clone, Copy, Debug)]
pub struct SessionView {
    /// The caller's address.
    pub peer: Peer,
    /// The caller's SRT socket ID.
    pub caller: u32,
    /// The session's own SRT socket ID.
    pub id: u32,
    /// Whether the caller publishes or subscribes.
    pub role: Role,
    /// Whether it is the active publisher's. A second publisher is the standby; a subscriber is never active.
    pub is_active: bool,
    /// Whether it is a publisher's session that drains: its peer sent a SHUTDOWN, and something is left to deliver.
    pub is_draining: bool,
    /// The time at which it was opened, in microseconds of the route's clock.
    pub opened: u64,
    /// The time of the last packet or conclusion from the peer, in microseconds of the route's clock.
    pub heard: u64,
    /// The agreed latency in milliseconds, in the direction of the payloads; 0 in buffer mode.
    pub latency_ms: u16,
    /// The length of its keys; None if it isn't encrypted, and in the report of an end, when they are removed.
    pub key_length: Option<KeyLength>,
    /// The session's counts.
    pub traffic: Traffic,
}

/// Returns the delay in the direction of the payloads: from the caller for a publisher, to it for a subscriber.
fn delay_of(role: Role, recv_ms: u16, send_ms: u16) -> u16
    ensures { result ≡ delay_of role recv_ms send_ms }
{
    match role {
        Role::Publish => recv_ms,
        Role::Request => send_ms,
    }
}

/// Returns the agreed latency in the direction of this role's payloads, in milliseconds, from a conclusion's answer.
pub fn latency_in(role: Role, answer: &HsAnswer) -> u16
    ensures { result ≡ latency_in role answer.now }
{
    match &answer.what {
        AnswerKind::Conclusion {
            mtu: _,
            window: _,
            id: _,
            mode: _,
            recv_ms,
            send_ms,
            congestion: _,
        } => delay_of(role, *recv_ms, *send_ms),
        AnswerKind::Induction(_) => 0,
        AnswerKind::Refusal(_) => 0,
    }
}

/// Returns a session's counts: from the publisher's or the subscriber's buffers, by its role.
fn traffic_of(role: Role, publisher: &Publisher, subscriber: &Subscriber) -> Traffic
    ensures { TellsTraffic role publisher.now subscriber.now result }
{
    match role {
        Role::Publish => Traffic::Received(publisher.statistics()),
        Role::Request => Traffic::Sent(subscriber.statistics()),
    }
}

/// Returns this snapshot with the length of its session's keys.
fn with_key_length(shown: Option<SessionView>, key_length: Option<KeyLength>) -> Option<SessionView>
    ensures { result ≡ option_map (with_key_length key_length) shown }
{
    let mut view = shown?;
    view.key_length = key_length;
    Some(view)
}

/// Returns these totals with the counts of one slot's snapshot added.
fn with_shown(totals: Totals, shown: Option<SessionView>) -> Totals
    ensures { result ≡ with_shown shown totals }
{
    match shown {
        Some(view) => totals.with(&view.traffic),
        None => totals,
    }
}

impl Table {
    /// Returns these totals with the counts of the open sessions added.
    fn add_to(&self, ended: Totals) -> Totals
        ensures { (e : Terms) (index clock : ℕ) (sessions : List Session) →
            IsTable e index clock self.now sessions → AddUp e index sessions e.sessions ended result }
    {
        let mut totals = ended;
        for at in 0..self.seats.len() {
            totals = with_shown(totals, self.look(at));
        }
        totals
    }

    /// Returns a snapshot of the open session of a slot; None if none is open there, or if there is no such slot.
    pub fn look(&self, slot: usize) -> Option<SessionView>
        ensures { ShowsSlot slot self.now result }
    {
        if slot >= self.seats.len() {
            return None;
        }
        self.look_by(active_buffers(self), slot)
    }

    /// The same of a slot that exists, where the active publisher has the buffers `active`.
    pub fn look_by(&self, active: Option<PublisherBuffers>, slot: usize) -> Option<SessionView>
        requires { slot < length self.now.seats.items }
        ensures { SeesSlot active slot self.now result }
    {
        let seat = &self.seats[slot];
        match &seat.session {
            Some(session) => {
                let role = session.part.role();
                Some(SessionView {
                    peer: session.peer,
                    caller: session.caller,
                    id: session.id,
                    role,
                    is_active: is_active_by(active, session),
                    is_draining: session.part.drains(),
                    opened: session.opened,
                    heard: session.heard,
                    latency_ms: latency_in(role, &session.answer),
                    key_length: None,
                    traffic: traffic_of(
                        role,
                        &self.publishers[session.part.buffers().place()],
                        &seat.subscriber,
                    ),
                })
            }
            None => None,
        }
    }
}

impl Route {
    /// Returns a snapshot of the open session of a slot, from 0; None if none is open there, or if the slot isn't below
    /// the number of sessions that the route's terms allow. Allocates nothing. Linear in the seats, at most 17.
    pub fn session(&self, slot: usize) -> Option<SessionView>
        ensures session { (e : Terms) (index : ℕ) (items : List TheItem) →
            stands self.now e index items → ShowsSession e index slot (after e index items).sessions result }
        ensures keys { (e : Terms) (index : ℕ) (items : List TheItem) →
            stands self.now e index items → ShowsKeys e slot (after e index items).keys result }
    {
        match &self.stage {
            Stage::Open { table, keys, .. } => {
                with_key_length(table.look(slot), keys.key_length(slot))
            }
            Stage::Closed(_) => None,
        }
    }

    /// Returns the session that ended last in a slot, from 0, with its cause and time; None if none ended there.
    pub fn ended(&self, slot: usize) -> Option<EndedSession>
        ensures { result ≡ ended_in slot self.now }
    {
        if slot >= self.ledger.ended.len() {
            return None;
        }
        self.ledger.ended[slot]
    }

    /// Returns the number of sessions opened so far. A repeated conclusion opens none. Saturates at 2^64 - 1.
    pub fn opened(&self) -> u64
        ensures { result ≡ opened_in self.now }
    {
        self.ledger.opened
    }

    /// Returns the number of conclusions that this route refused so far with this code, repeats included. What
    /// `srt_lobby` refuses reaches no route. Saturates at 2^64 - 1.
    pub fn refused(&self, code: RefusalCode) -> u64
        ensures { result ≡ refused_in code self.now }
    {
        self.ledger.refused(code)
    }

    /// Returns the number of conclusions that this route refused so far for this cause, repeats included. Saturates at
    /// 2^64 - 1.
    pub fn refused_for(&self, cause: RefusalCause) -> u64
        ensures { result ≡ refused_of cause self.now }
    {
        self.ledger.refused_for(cause)
    }

    /// Returns the counts of all sessions of the route so far, ended and open. When a session ends, its counts stay in
    /// the sums. Allocates nothing. Quadratic in the seats.
    pub fn totals(&self) -> Totals
        ensures { (e : Terms) (index : ℕ) (items : List TheItem) →
            stands self.now e index items → AddUp e index (after e index items).sessions e.sessions (totals_of_ended self.now) result }
    {
        match &self.stage {
            Stage::Open { table, .. } => table.add_to(self.ledger.totals),
            Stage::Closed(_) => self.ledger.totals,
        }
    }
}
