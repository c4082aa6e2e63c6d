//! Seats: each slot's session and buffers.

ghost use Rattle.std.specs.Prelude.{◌≡◌, ℕ, ◌+◌, ◌*◌, ◌%◌, ◌^◌, ◌<◌, ◌≤◌, true, false, None, Some, position, length, count_by, if◌then◌else◌};
ghost use Rattle.std.specs.List.{list_all, list_any};
ghost use Rattle.srt_route.specs.Sessions.{is_same_peer};
ghost use Rattle.srt_route.specs.Tables.{is_session_of, holds, has_address, has_subscriber, used_buffers, publishes_from};
ghost use Rattle.srt_route.specs.Seats.{has_publisher, session_passes};
ghost use Rattle.srt_types.specs.Capped.{one_if};
ghost use Rattle.srt_route.specs.Tables.{has_draining, has_expired, has_speaker, is_of_sort, is_vacant, is_stored_for};
ghost use Rattle.srt_route.specs.Tables.{stored_after, with_stored};

use crate::part::Part;
use crate::publisher_buffers::PublisherBuffers;
use srt_hs::HsAnswer;
use srt_sub::Subscriber;
use srt_types::{Peer, is_same_site};

/// An open session.
#[derive(Drop)]
pub struct Session {
    /// The caller's address.
    pub peer: Peer,
    /// The caller's SRT socket ID, to which replies are addressed.
    pub caller: u32,
    /// The session's own SRT socket ID, the destination of the caller's packets; see `socket_ids.rt`.
    pub id: u32,
    /// Whether it is a publisher's, a draining publisher's or a subscriber's session, and what only such a one has.
    pub part: Part,
    /// The time at which it was opened, in microseconds: its packets' timestamps count from it.
    pub opened: u64,
    /// The time of the last packet or conclusion from the peer, in microseconds.
    pub heard: u64,
    /// The answer to its conclusion, kept to answer a repeated conclusion with the same bytes (section 4.3.1.2).
    pub answer: HsAnswer,
}

/// The seat of a slot. `session` precedes its buffers, so that a search for open sessions reads no more of an empty
/// seat.
#[derive(Drop)]
pub struct Seat {
    /// The number of sessions that were ever opened in this seat, modulo 2^16.
    pub generation: u16,
    /// The open session, if any.
    pub session: Option<Session>,
    /// A subscriber's buffers; without meaning while no subscriber's session is open here.
    pub subscriber: Subscriber,
}

/// The seats that are counted.
#[derive(Clone, Copy)]
pub enum Sort {
    /// Those where a publisher's session is open.
    Publisher,
    /// Those where a session of this address is open, whatever the port.
    From(Peer),
    /// Those where a session drains.
    Draining,
    /// Those where a session has expired at this time, in microseconds.
    Expired(u64),
    /// Those where no session is open.
    Vacant,
}

/// Whether two addresses are equal: same IP and same UDP port.
pub fn is_same_peer(peer: Peer, other: Peer) -> bool
    ensures { result ≡ is_same_peer peer other }
{
    peer.ip == other.ip && peer.port == other.port
}

impl Seat {
    fn holds(&self, peer: Peer, caller: u32) -> bool
        ensures { result ≡ holds peer caller self.now }
    {
        self.session.as_ref().is_some_and(|session| {
            is_same_peer(session.peer, peer) && session.caller == caller && !session.part.drains()
        })
    }

    /// Whether a publisher's session is open here.
    pub fn has_publisher(&self) -> bool
        ensures { result ≡ has_publisher self.now }
    {
        self.session
            .as_ref()
            .is_some_and(|session| session.part.publishes())
    }

    /// Whether a session of this address's site is open here, whatever the port.
    fn has_address(&self, peer: Peer) -> bool
        ensures { result ≡ has_address peer.ip self.now }
    {
        self.session
            .as_ref()
            .is_some_and(|session| is_same_site(&session.peer.ip, &peer.ip))
    }

    /// Whether a subscriber's session is open here.
    pub fn has_subscriber(&self) -> bool
        ensures { result ≡ has_subscriber self.now }
    {
        self.session
            .as_ref()
            .is_some_and(|session| !session.part.publishes())
    }

    /// Returns the publisher buffers that the session here uses; the first if none is open.
    pub fn used_buffers(&self) -> PublisherBuffers
        ensures { result ≡ used_buffers self.now }
    {
        self.session
            .as_ref()
            .map_or(PublisherBuffers::First, |session| session.part.buffers())
    }

    /// Whether a publisher's session with these buffers is open here.
    fn publishes_from(&self, which: PublisherBuffers) -> bool
        ensures { result ≡ publishes_from which self.now }
    {
        self.session
            .as_ref()
            .is_some_and(|session| session.part.publishes_from(which))
    }

    fn is_vacant(&self) -> bool
        ensures { result ≡ is_vacant self.now }
    {
        self.session.is_none()
    }

    /// Returns a seat with these buffers in which so many sessions were opened, modulo 2^16, and none is open.
    pub fn vacant(generation: u16, subscriber: Subscriber) -> Seat
        ensures { result ≡ record { generation = generation; session = None; subscriber = subscriber } }
    {
        Seat {
            generation,
            session: None,
            subscriber,
        }
    }

    /// Opens a session in this seat, whose buffers have been started. The generation increases by one, modulo 2^16.
    pub fn fill(&mut self, session: Session)
        ensures { self.new ≡ record { generation = (self.old.generation + 1) % 65536; session = Some session; subscriber = self.old.subscriber } }
    {
        self.generation = self.generation.wrapping_add(1);
        self.session = Some(session);
    }

    /// Whether a packet from this peer to this socket ID belongs to the session that is open here.
    pub fn is_for(&self, peer: Peer, dest: u32) -> bool
        ensures { result ≡ session_passes (is_stored_for peer dest) self.now.session }
    {
        self.session.as_ref().is_some_and(|session| {
            is_same_peer(session.peer, peer) && session.id == dest && !session.part.drains()
        })
    }

    /// After a packet for the session: closes it if `ends`, else updates the time at which the peer was last heard. If
    /// `drains` is a time, the session drains until then.
    pub fn keep_or_end(&mut self, clock: u64, ends: bool, drains: Option<u64>)
        ensures { self.new ≡ with_stored (stored_after ends drains clock self.old.session) self.old }
    {
        if ends {
            self.session = None;
            return;
        }
        if let Some(session) = &mut self.session {
            session.heard = clock;
            session.part = session.part.after(drains);
        }
    }

    /// Whether a publisher's session is open here that sends packets: a draining one sends none.
    pub fn speaks(&self) -> bool
        ensures { result ≡ has_speaker self.now }
    {
        self.session
            .as_ref()
            .is_some_and(|session| session.part.speaks())
    }

    /// Whether a session drains here.
    fn drains(&self) -> bool
        ensures { result ≡ has_draining self.now }
    {
        self.session
            .as_ref()
            .is_some_and(|session| session.part.drains())
    }

    /// Whether this seat is of a sort.
    fn is_of(&self, sort: Sort) -> bool
        ensures { result ≡ is_of_sort sort self.now }
    {
        match sort {
            Sort::Publisher => self.has_publisher(),
            Sort::From(peer) => self.has_address(peer),
            Sort::Draining => self.drains(),
            Sort::Expired(clock) => self.has_expired(clock),
            Sort::Vacant => self.is_vacant(),
        }
    }
}

/// Returns the first slot with an open session of this caller (address and socket ID). Linear in the seats, at most 17.
pub fn slot_of(seats: &[Seat], peer: Peer, caller: u32) -> Option<usize>
    ensures { result ≡ position (holds peer caller) seats.now }
{
    seats.iter().position(|seat| seat.holds(peer, caller))
}

/// Returns 1 if `yes`, else 0.
fn one_if(yes: bool) -> usize
    ensures { result ≡ one_if yes }
{
    if yes { 1 } else { 0 }
}

/// Returns the number of open publishers after one seat changed, from whether a publisher was open there before and
/// whether one is.
pub fn recounted(publishers: usize, before: bool, after: bool) -> usize
    requires few { publishers ≤ 17 }
    requires counted { one_if before ≤ publishers }
    ensures { result + one_if before ≡ publishers + one_if after }
{
    publishers + one_if(after) - one_if(before)
}

/// Returns the number of seats of a sort.
#[inline(always)]
fn count(seats: &[Seat], sort: Sort) -> usize
    ensures { result ≡ count_by (is_of_sort sort) seats.now }
{
    let mut count = 0;
    for at in 0..seats.len() {
        count += one_if(seats[at].is_of(sort));
    }
    count
}

/// Counts the open publishers. A route keeps their number: `Table::open_publishers`.
pub fn count_publishers(seats: &[Seat]) -> usize
    ensures { result ≡ count_by has_publisher seats.now }
{
    count(seats, Sort::Publisher)
}

/// Returns the number of open sessions of this address, whatever their ports.
pub fn count_from(seats: &[Seat], peer: Peer) -> usize
    ensures { result ≡ count_by (has_address peer.ip) seats.now }
{
    count(seats, Sort::From(peer))
}

/// Returns the number of open sessions that drain.
pub fn count_draining(seats: &[Seat]) -> usize
    ensures { result ≡ count_by has_draining seats.now }
{
    count(seats, Sort::Draining)
}

/// Returns the number of open sessions that have expired at this clock.
pub fn count_expired(seats: &[Seat], clock: u64) -> usize
    ensures { result ≡ count_by (has_expired clock) seats.now }
{
    count(seats, Sort::Expired(clock))
}

/// Returns the number of free slots.
pub fn count_vacant(seats: &[Seat]) -> usize
    ensures { result ≡ count_by is_vacant seats.now }
{
    count(seats, Sort::Vacant)
}

/// Whether a publisher's session with these buffers is open in any seat.
pub fn have_publisher(seats: &[Seat], which: PublisherBuffers) -> bool
    ensures { result ≡ list_any (publishes_from which) seats.now }
{
    seats.iter().any(|seat| seat.publishes_from(which))
}

/// Returns the first slot without a session.
pub fn free_slot(seats: &[Seat]) -> Option<usize>
    ensures { result ≡ position is_vacant seats.now }
{
    seats.iter().position(|seat| seat.is_vacant())
}

/// Whether no session is open in any seat.
pub fn are_vacant(seats: &[Seat]) -> bool
    ensures { result ≡ list_all is_vacant seats.now }
{
    seats.iter().all(|seat| seat.is_vacant())
}
