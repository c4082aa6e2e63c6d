//! Places for the routes of a run, and how the polling thread and the ticking one reach the routes in them.

ghost use Rattle.std.specs.Prelude.{◌≡◌, ◌<◌, ◌≤◌, [], ◌∷◌, ◌++◌, IfOk, IfErr, length, map};
ghost use Rattle.std.specs.Vec.{vec_capacity};
ghost use Rattle.srt_types.specs.Terms.{terms_of};
ghost use Rattle.srt_lobby.specs.Names.{as_hidden, name_of, new_name};
ghost use Rattle.srt_mailbox.specs.Identities.{identity_in};
ghost use Rattle.srt_mailbox.specs.Places.{arrived, locks_of};
ghost use Rattle.srt_serve.specs.inside.Arrived.{AreIndexed, IsAnswered, AreAnswered, report_of};
ghost use Rattle.srt_serve.specs.Opened.{new_clocks};
ghost use Rattle.srt_supervision.specs.Answers.{Closes};

use crate::answers::{Beginning, ClosesRoute};
use crate::counters::AnyNumber;
use crate::evidence::{
    CloseRequest, FlagRaised, MarkedAfter, MarkedBefore, NoNotice, NoneAdded, NoneMarked,
    NoneStated, mark, mark_after, next_poller, raise_flag, request_in, take_flag, take_mark,
    write_word,
};
use crate::hosting::SeatsHosted;
use crate::route_sets::RouteSet;
use crate::ticking::TickEnds;
use srt_lobby::NewName;
use srt_mailbox::{
    Attachment, ClockEnd, NoneSeated, Place, PollerEnds, Seat, SeatReader, open_seat,
};
use srt_poller::{AddedRoute, Ends, Openings};
use srt_supervision::Answers;
use srt_types::Entry;
use srt_wakeups::AtomicBitSet;
use std::alloc::{AllocError, Global};
use std::marker::PhantomData;
use std::sync::atomic::AtomicIn;

/// The polling thread's attachment of a route: it gets it with its ends of the route. That a route has one is evidence
/// that the run began with it, or that the watcher requested to open a route of its terms.
#[derive(Drop)]
pub struct NameAttachment<A: Answers + Beginning> {
    /// The route's name.
    pub name: NewName,
    of: PhantomData<A>,
}

impl<A: Answers + Beginning> Attachment for NameAttachment<A> {
    ghost belongs = { λ terms index named. (new_name named.name ≡ as_hidden (name_of terms)) × IsAnswered A.answered A.first index terms };
}

/// Allocates this many places, all of them empty.
pub fn open_places<A: Answers + Beginning>(
    alloc: Global,
    places: usize,
) -> Result<Vec<Place<NameAttachment<A>>>, AllocError>
    ensures { IfOk result (λ opened. length opened.items ≡ places) }
{
    let mut opened = Vec::with_capacity(alloc, places)?;
    for at in 0..places {
        opened.push(Place::new())?;
    }
    Ok(opened)
}

/// Evidence that a route got no seat: out of memory, or its entry or its index is out of its limits.
#[derive(Drop)]
pub struct NotSeated {
    /// The route's index.
    pub index: usize,
    refused: (),
}

// The route with this index got no seat.
fn not_seated(index: usize) -> NotSeated
    ensures { result.index ≡ index }
{
    NotSeated { index, refused: () }
}

/// Opens the route of this entry, with a seat. Allocates all memory that it will ever need. An error means out of memory,
/// or that the entry or the index is out of its limits. Nothing is kept then. Unless the run begins with the route, the
/// watcher has requested to open it.
pub fn seat_route<A: Answers + Beginning>(
    alloc: Global,
    entry: &Entry,
    index: usize,
) -> Result<Seat<NameAttachment<A>>, NotSeated>
    requires { IsAnswered A.answered A.first index (terms_of entry.now) }
    ensures seated { IfOk result (λ s. ((identity_in s.cell).terms ≡ terms_of entry.now) × ((identity_in s.cell).index ≡ index)) }
    ensures refused { IfErr result (λ n. n.index ≡ index) }
{
    let Ok(name) = NewName::of(alloc, entry) else {
        return Err(not_seated(index));
    };
    let attachment = NameAttachment {
        name,
        of: PhantomData,
    };
    match open_seat(alloc, entry, index, attachment) {
        Ok(seat) => Ok(seat),
        Err(_) => Err(not_seated(index)),
    }
}

/// Keeps the seat of the route with this index behind those of others. The error means out of memory.
pub fn keep_seat<T: Drop>(seats: &mut Vec<T>, seat: T, index: usize) -> Result<(), NotSeated>
    ensures kept { IfOk result (λ _. seats.new.items ≡ seats.old.items ++ seat ∷ []) }
    ensures refused { IfErr result (λ n. n.index ≡ index) }
{
    match seats.push(seat) {
        Ok(()) => Ok(()),
        Err(_) => Err(not_seated(index)),
    }
}

/// The clock's ends of the added routes, in the order of their indexes.
#[derive(Drop)]
pub struct ClockArrivals<'a, A: Answers + Beginning>
where
    NameAttachment<A>: Attachment,
{
    /// Reaches the routes.
    pub reader: SeatReader<'a, NameAttachment<A>>,
}

impl<A: Answers + Beginning> TickEnds<ClockEnd> for ClockArrivals<'_, A> {
    ghost added = { λ s. new_clocks (arrived s.reader) };

    ghost places = { λ s. locks_of s.reader };

    type NoneLeft = NoneSeated;

    fn next(&mut self) -> Result<ClockEnd, NoneSeated> {
        match self.reader.next_clock() {
            Ok(hand) => Ok(hand.end),
            Err(none) => Err(none),
        }
    }
}

/// Where the watching thread leaves what the polling one is to know of a change. What is known once a call has returned may
/// be nothing, but only by the call can code that is generic over this trait show it.
pub trait ChangeNotices: Answers {
    ghost use Rattle.std.specs.Prelude.{ℕ, ◌<◌};
    ghost use Rattle.srt_supervision.specs.Answers.{Closes};

    /// What is known once a route was requested to close.
    ghost requested: { Self → ℕ → Type 0 };

    /// What is known once the polling thread was notified.
    ghost notified: { Self → Type 0 };

    /// What became of a request to close a route.
    type Notice: Drop;

    /// Requests that this route be closed, once `notify` is called. The watcher requested it, and the route was there before
    /// those were put into their places that the change opens.
    fn close(&self, route: usize, hosted: &SeatsHosted) -> Self::Notice
        requires answered { Self.answered (Closes route) }
        requires before { route < hosted.now.first }
        ensures { requested self.now route };

    /// Notifies the polling thread, which checks before its next round. For the watching thread, at the end of a change.
    fn notify(&self, hosted: &SeatsHosted) -> FlagRaised
        ensures { notified self.now };
}

/// Whether there is a notice.
pub struct Pending;

/// The routes that were requested to close so far.
pub struct Requested;

/// Those of them that the polling thread hasn't taken.
pub struct Closings;

type RequestedSet = RouteSet<Requested, AtomicBitSet>;

type ClosingSet = RouteSet<Closings, AtomicBitSet>;

/// Notices of the watching thread to the polling one: that routes were added, and which are to close.
#[derive(Drop)]
pub struct RouteNotices<A: Answers> {
    // 0 unless there was a notice since the polling thread last checked
    is_pending: AtomicIn<AnyNumber<Pending>>,
    // the routes that were requested to close so far
    requested: RequestedSet,
    // those of them that the polling thread hasn't taken
    closings: ClosingSet,
    // of each route, 0, or one more than its index once it was requested to close
    words: Vec<AtomicIn<ClosesRoute<A>>>,
}

/// What became of a request to close a route.
#[derive(Drop)]
pub enum CloseNotice<A: Answers> {
    /// Its word states it, and it is marked among those that are to close, by this call or before.
    Left(MarkedAfter<AtomicIn<ClosesRoute<A>>, ClosingSet>),
    /// It was requested before.
    Repeated(MarkedBefore<RequestedSet>),
    /// There is no such route.
    NoSuchRoute,
}

/// Evidence that no route among some first ones was to close.
#[derive(Drop)]
pub enum NoneToClose {
    /// None was marked.
    Unmarked(NoneMarked<ClosingSet>),
    /// The first one that was marked, at this index, has no word.
    Wordless(usize),
    /// Its word stated none.
    Unstated(NoneStated),
}

// Allocates a word for each of this many routes.
fn open_words<A: Answers>(
    alloc: Global,
    routes: usize,
) -> Result<Vec<AtomicIn<ClosesRoute<A>>>, AllocError>
    ensures { IfOk result (λ words. length words.items ≡ routes) }
{
    let mut words = Vec::with_capacity(alloc, routes)?;
    for _ in 0..routes {
        words.push(AtomicIn::new(0))?;
    }
    Ok(words)
}

impl<A: Answers> RouteNotices<A> {
    ghost use Rattle.srt_serve.specs.inside.Notices.{AreFor, HasNoneAt};

    /// For this many routes at most. Allocates two bits and a word for each; an error means out of memory.
    pub fn open(alloc: Global, routes: usize) -> Result<RouteNotices<A>, AllocError>
        ensures { IfOk result (λ notices. AreFor routes notices) }
    {
        Ok(RouteNotices {
            is_pending: AtomicIn::new(0),
            requested: RouteSet::of(AtomicBitSet::open(alloc, routes)?),
            closings: RouteSet::of(AtomicBitSet::open(alloc, routes)?),
            words: open_words(alloc, routes)?,
        })
    }

    // The next route that is to close, among this many. The watcher requested that. The error is evidence that there is
    // none at this look.
    fn next_close(&self, routes: usize, look: u64) -> Result<CloseRequest<A>, NoneToClose>
        ensures some { IfOk result (λ request. request.route < routes) }
        ensures none { IfErr result (HasNoneAt self.now routes look) }
    {
        let index = match take_mark(&self.closings, routes, look) {
            Ok(index) => index,
            Err(none) => return Err(NoneToClose::Unmarked(none)),
        };
        let Some(word) = self.words.get(index) else {
            return Err(NoneToClose::Wordless(index));
        };
        match request_in(word, routes, look) {
            Ok(request) => Ok(request),
            Err(none) => Err(NoneToClose::Unstated(none)),
        }
    }
}

impl<A: Answers> Answers for RouteNotices<A> {
    ghost answered = { λ a. A.answered a };
}

impl<A: Answers> ChangeNotices for RouteNotices<A> {
    ghost use Rattle.srt_serve.specs.inside.Notices.{IsNoticed};

    ghost requested = { λ _ _. Unit {0} };

    ghost notified = { λ _. Unit {0} };

    type Notice = CloseNotice<A>;

    // A second request for a route is ignored.
    fn close(&self, route: usize, _hosted: &SeatsHosted) -> CloseNotice<A>
        requires answered { A.answered (Closes route) }
        requires before { route < _hosted.now.first }
        ensures { IsNoticed self.now route result }
    {
        let Some(word) = self.words.get(route) else {
            return CloseNotice::NoSuchRoute;
        };
        match mark(&self.requested, route) {
            Ok(_) => {
                let written = write_word(word, (route as u64).wrapping_add(1));
                CloseNotice::Left(mark_after(&self.closings, route, written))
            }
            Err(before) => CloseNotice::Repeated(before),
        }
    }

    fn notify(&self, _hosted: &SeatsHosted) -> FlagRaised {
        raise_flag(&self.is_pending)
    }
}

/// How the polling thread reaches the routes in the places, and gets those that are to close.
#[derive(Drop)]
pub struct PollerArrivals<'a, 'n, A: Answers + Beginning>
where
    NameAttachment<A>: Attachment,
{
    /// Reaches the routes.
    pub reader: SeatReader<'a, NameAttachment<A>>,
    notices: &'n RouteNotices<A>,
    // the routes that were requested to close, the oldest first, each at most once
    requested: Vec<CloseRequest<A>>,
    // the number of looks, wrapping, and evidence of the last one that found no notice, no further route, or none to close:
    // an answer that there is none rests on evidence of its own look
    looks: u64,
    unnoticed: Option<NoNotice>,
    none_added: Option<NoneAdded>,
    none_to_close: Option<NoneToClose>,
    ghost indexed: { AreIndexed (arrived reader) },
    ghost answered: { AreAnswered A.answered A.first (arrived reader) },
}

impl<'a, 'n, A: Answers + Beginning> PollerArrivals<'a, 'n, A> {
    /// With a reader that has reached the first routes. Allocates room for the routes that are to close.
    pub fn new(
        alloc: Global,
        reader: SeatReader<'a, NameAttachment<A>>,
        notices: &'n RouteNotices<A>,
        routes: usize,
    ) -> Result<PollerArrivals<'a, 'n, A>, AllocError>
        requires indexed { AreIndexed (arrived reader) }
        requires answered { AreAnswered A.answered A.first (arrived reader) }
        ensures { IfOk result (λ a. (a.reader ≡ reader.entry) × (a.requested.items ≡ []) × (routes ≤ vec_capacity a.requested)) }
    {
        Ok(PollerArrivals {
            reader,
            notices,
            requested: Vec::with_capacity(alloc, routes)?,
            looks: 0,
            unnoticed: None,
            none_added: None,
            none_to_close: None,
        })
    }
}

impl<A: Answers + Beginning> Openings for PollerArrivals<'_, '_, A> {
    ghost use Rattle.std.specs.Prelude.{◌⊎◌, ◌≤◌, ◌+◌, ◌%◌, ◌^◌, ◌++◌, false, Some, IsSome, IfSome, IfNone, length};
    ghost use Rattle.srt_poller.specs.Devices.{joined};
    ghost use Rattle.srt_poller.specs.Openings.{reported_route, additions, closings};
    ghost use Rattle.srt_serve.specs.inside.Notices.{HasNoneAt};
    ghost use Rattle.std.specs.Vec.{vec_capacity};
    ghost use Rattle.srt_serve.specs.inside.Arrived.{marked};
    ghost use Rattle.srt_serve.specs.inside.Requests.{routes_of};

    ghost added = { λ s. Some (map report_of (arrived s.reader)) };

    // The names of the places' locks precede the routes that were requested to close: so it is known that a poller leaves
    // them.
    ghost requested = { λ s. Some (marked (locks_of s.reader) (routes_of s.requested.items)) };

    // Only with evidence of its own look, which `has_changes` begins, it answers that nothing has changed, or that there is no
    // further route.
    ghost unchanged = { λ s. IfSome s.unnoticed (λ none. none.look ≡ s.looks) × IsSome s.unnoticed };

    ghost no_more = { λ s. IfSome s.none_added (λ none. none.look ≡ s.looks) × IsSome s.none_added };

    // or there is no room for a further request; there is for one of each route
    ghost none_to_close = { λ s routes. (IfSome s.none_to_close (HasNoneAt s.notices.now routes s.looks) × IsSome s.none_to_close)
        ⊎ (vec_capacity s.requested ≤ length s.requested.items) };

    fn has_changes(&mut self) -> bool
        ensures added { self.new.reader ≡ self.old.reader }
        ensures requested { self.new.requested ≡ self.old.requested }
        ensures unchanged { result ≡ false → IfSome self.new.unnoticed (λ none. none.look ≡ self.new.looks) × IsSome self.new.unnoticed }
        ensures look { self.new.looks ≡ (self.old.looks + 1) % 2 ^ 64 }
    {
        self.looks = self.looks.wrapping_add(1);
        match take_flag(&self.notices.is_pending, self.looks) {
            Ok(_) => true,
            Err(clear) => {
                self.unnoticed = Some(clear);
                false
            }
        }
    }

    fn next(&mut self) -> Option<AddedRoute>
        ensures added { Some (map report_of (arrived self.new.reader)) ≡ joined (Some (map report_of (arrived self.old.reader)))
            (map reported_route (additions result)) }
        ensures requested { Some (marked (locks_of self.new.reader) (routes_of self.new.requested.items))
            ≡ Some (marked (locks_of self.old.reader) (routes_of self.old.requested.items)) }
        ensures all { IfNone result (IfSome self.new.none_added (λ none. none.look ≡ self.new.looks) × IsSome self.new.none_added) }
        ensures look { self.new.looks ≡ self.old.looks }
    {
        match next_poller(&mut self.reader, self.looks) {
            Ok(taken) => {
                let PollerEnds {
                    ingress,
                    drain,
                    companion,
                } = taken;
                Some(AddedRoute {
                    name: companion.name,
                    ends: Ends { ingress, drain },
                })
            }
            Err(none) => {
                self.none_added = Some(none);
                None
            }
        }
    }

    fn next_close(&mut self, routes: usize) -> Option<usize>
        ensures known { IfSome result (λ r. r < routes) }
        ensures added { self.new.reader ≡ self.old.reader }
        ensures requested { Some (marked (locks_of self.new.reader) (routes_of self.new.requested.items))
            ≡ joined (Some (marked (locks_of self.old.reader) (routes_of self.old.requested.items))) (closings result) }
        ensures no_more { IfSome self.old.none_added (λ none. none.look ≡ self.old.looks) × IsSome self.old.none_added
            → IfSome self.new.none_added (λ none. none.look ≡ self.new.looks) × IsSome self.new.none_added }
        ensures all { IfNone result ((IfSome self.new.none_to_close (HasNoneAt self.new.notices.now routes self.new.looks) × IsSome self.new.none_to_close)
            ⊎ (vec_capacity self.new.requested ≤ length self.new.requested.items)) }
        ensures look { self.new.looks ≡ self.old.looks }
    {
        if self.requested.len() >= self.requested.capacity() {
            return None;
        }
        let request = match self.notices.next_close(routes, self.looks) {
            Ok(request) => request,
            Err(none) => {
                self.none_to_close = Some(none);
                return None;
            }
        };
        let route = request.route;
        let Ok(()) = self.requested.push(request) else {
            unreachable!();
        };
        Some(route)
    }
}
