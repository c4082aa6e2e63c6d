//! What changed at a route between two snapshots.

ghost use Rattle.std.specs.Prelude.{◌≡◌};
ghost use Rattle.srt_log.specs.Changes.{is_same_view, is_same, is_open, is_active, is_new, ended_at, opened_at, ended_at_once, took_over_at};
ghost use Rattle.srt_log.specs.Snapshots.{received_trouble, sent_trouble, count_of};
ghost use Rattle.srt_log.specs.Changes.{has_trouble, trouble_at, troubled_at, opened_below, unseen, change_at};

use crate::events::Trouble;
use crate::snapshots::{RouteSnapshot, SlotSession};
use srt_route::{SessionView, Traffic};
use srt_types::product_limits::MAX_SESSIONS;

/// The number of steps in which two snapshots are compared: one for each slot's end, two for its opening and the end after that,
/// one for its take-over and three for its troubles, and the last one for the sessions that no snapshot has.
pub const STEPS: usize = UNSEEN + 1;

// The first steps of openings, of take-overs and of troubles, and the step of unseen sessions.
const OPENINGS: usize = MAX_SESSIONS;

const TAKE_OVERS: usize = OPENINGS + 2 * MAX_SESSIONS;

const TROUBLES: usize = TAKE_OVERS + MAX_SESSIONS;

const UNSEEN: usize = TROUBLES + 3 * MAX_SESSIONS;

/// A change between two snapshots of a route.
#[derive(Clone, Copy, PartialEq, Eq)]
pub enum Change {
    /// The session that was open in this slot has ended, and the slot has another one. The later snapshot has its end if it was the last one
    /// that ended there.
    Gone {
        /// The slot, from 0.
        slot: usize,
    },
    /// The session in this slot has ended. The later snapshot has it.
    Ended {
        /// The slot, from 0.
        slot: usize,
    },
    /// A session opened in this slot. The later snapshot has it.
    Opened {
        /// The slot, from 0.
        slot: usize,
    },
    /// The standby publisher in this slot is the active one now.
    TookOver {
        /// The slot, from 0.
        slot: usize,
    },
    /// Something is wrong with the stream of the session in this slot, for the first time.
    Troubled {
        /// The slot, from 0.
        slot: usize,
        /// What is wrong.
        trouble: Trouble,
    },
    /// Sessions opened and ended between the snapshots.
    Unseen {
        /// Their number. No snapshot has them.
        opened: u64,
    },
}

// Whether these are states of the same session.
pub(crate) fn is_same_view(old: &SessionView, new: &SessionView) -> bool
    ensures { result ≡ is_same_view old.now new.now }
{
    old.id == new.id && old.opened == new.opened
}

// Whether two snapshots of a slot have the same session.
fn is_same(old: &Option<SlotSession>, new: &Option<SlotSession>) -> bool
    ensures { result ≡ is_same old.now new.now }
{
    match old {
        Some(old) => match new {
            Some(new) => is_same_view(old.view(), new.view()),
            None => false,
        },
        None => false,
    }
}

// Whether a slot has an open session.
fn is_open(slot: &Option<SlotSession>) -> bool
    ensures { result ≡ is_open slot.now }
{
    match slot {
        Some(SlotSession::Open(_)) => true,
        Some(SlotSession::Ended(_)) => false,
        None => false,
    }
}

// Whether the session of a slot is the active publisher.
fn is_active(slot: &Option<SlotSession>) -> bool
    ensures { result ≡ is_active slot.now }
{
    match slot {
        Some(session) => session.view().is_active,
        None => false,
    }
}

// Whether the later snapshot of a slot has a session that the earlier one hasn't.
fn is_new(old: &Option<SlotSession>, new: &Option<SlotSession>) -> bool
    ensures { result ≡ is_new old.now new.now }
{
    new.is_some() && !is_same(old, new)
}

// Returns the end of the session that was open in a slot.
fn ended_at(slot: usize, old: &Option<SlotSession>, new: &Option<SlotSession>) -> Option<Change>
    ensures { result ≡ ended_at slot old.now new.now }
{
    if !is_open(old) {
        return None;
    }
    if !is_same(old, new) {
        return Some(Change::Gone { slot });
    }
    if is_open(new) {
        None
    } else {
        Some(Change::Ended { slot })
    }
}

// Returns the opening of a session in a slot.
fn opened_at(slot: usize, old: &Option<SlotSession>, new: &Option<SlotSession>) -> Option<Change>
    ensures { result ≡ opened_at slot old.now new.now }
{
    if is_new(old, new) {
        Some(Change::Opened { slot })
    } else {
        None
    }
}

// Returns the end of a session that opened in a slot since the earlier snapshot.
fn ended_at_once(
    slot: usize,
    old: &Option<SlotSession>,
    new: &Option<SlotSession>,
) -> Option<Change>
    ensures { result ≡ ended_at_once slot old.now new.now }
{
    if !is_new(old, new) {
        return None;
    }
    if is_open(new) {
        None
    } else {
        Some(Change::Ended { slot })
    }
}

// Returns the take-over by the publisher of a slot.
fn took_over_at(slot: usize, old: &Option<SlotSession>, new: &Option<SlotSession>) -> Option<Change>
    ensures { result ≡ took_over_at slot old.now new.now }
{
    if !is_same(old, new) {
        return None;
    }
    if is_active(old) || !is_active(new) || !is_open(new) {
        return None;
    }
    Some(Change::TookOver { slot })
}

// Returns how often this was wrong with a publisher's stream. Packets that arrived after their place was passed are too late
// if as many numbers were given up. Otherwise they were sent again though they had arrived.
fn received_trouble(trouble: Trouble, counts: &srt_pub::Counts) -> u64
    ensures { result ≡ received_trouble trouble counts.now.full_window_acks counts.now.late counts.now.given_up }
{
    match trouble {
        Trouble::Misdirected => 0,
        Trouble::FullWindow => counts.full_window_acks,
        Trouble::LatePackets => counts.late.min(counts.given_up),
    }
}

// Returns how often this was wrong with a subscriber's stream.
fn sent_trouble(trouble: Trouble, misdirected: u64) -> u64
    ensures { result ≡ sent_trouble trouble misdirected }
{
    match trouble {
        Trouble::Misdirected => misdirected,
        Trouble::FullWindow | Trouble::LatePackets => 0,
    }
}

// Returns how often this was wrong with a session's stream since its opening. Never decreases.
fn count_of(trouble: Trouble, traffic: &Traffic) -> u64
    ensures { result ≡ count_of trouble traffic.now }
{
    match traffic {
        Traffic::Received(statistics) => received_trouble(trouble, &statistics.counts),
        Traffic::Sent(statistics) => sent_trouble(trouble, statistics.counts.misdirected),
    }
}

// Whether this was wrong with the session of a slot.
fn has_trouble(trouble: Trouble, slot: &Option<SlotSession>) -> bool
    ensures { result ≡ has_trouble trouble slot.now }
{
    match slot {
        Some(session) => count_of(trouble, &session.view().traffic) != 0,
        None => false,
    }
}

// Returns the trouble of a step: each slot has three such steps.
fn trouble_at(step: usize) -> Trouble
    ensures { result ≡ trouble_at step }
{
    match step % 3 {
        0 => Trouble::Misdirected,
        1 => Trouble::FullWindow,
        _ => Trouble::LatePackets,
    }
}

// Returns the first time that this is wrong with the session of a slot.
fn troubled_at(
    slot: usize,
    trouble: Trouble,
    old: &Option<SlotSession>,
    new: &Option<SlotSession>,
) -> Option<Change>
    ensures { result ≡ troubled_at slot trouble old.now new.now }
{
    if !has_trouble(trouble, new) {
        return None;
    }
    if is_same(old, new) && has_trouble(trouble, old) {
        return None;
    }
    Some(Change::Troubled { slot, trouble })
}

// Returns how many slots have a new session.
#[tactic(auto, using(crate::proofs::Slots::no_slots, crate::proofs::Slots::next_slot))]
fn opened_in(old: &RouteSnapshot, new: &RouteSnapshot) -> u64
    ensures { result ≡ opened_below 17 old.now.slots new.now.slots }
{
    let mut opened = 0u64;
    for slot in 0..MAX_SESSIONS {
        if is_new(&old.slots[slot], &new.slots[slot]) {
            opened = opened.saturating_add(1);
        }
    }
    opened
}

// Returns how many sessions opened and ended between the snapshots, if there were any.
#[tactic(auto, unfolding(crate::specs::Changes::unseen))]
fn unseen(old: &RouteSnapshot, new: &RouteSnapshot) -> Option<Change>
    ensures { result ≡ unseen old.now new.now }
{
    let opened = new
        .opened
        .saturating_sub(old.opened)
        .saturating_sub(opened_in(old, new));
    if opened == 0 {
        return None;
    }
    Some(Change::Unseen { opened })
}

/// Returns what changed at a route between two snapshots in this one of the [`STEPS`] steps. None if nothing did, or if there
/// is no such step. Taken in order, the steps are the order of the log: the ends of sessions that the earlier snapshot had
/// open, slots upwards; for each slot the session that opened there, and its end if it has ended again; the publisher that
/// took over; for each slot what is wrong for the first time with its session's stream; the number of sessions that no
/// snapshot has.
pub fn change_at(old: &RouteSnapshot, new: &RouteSnapshot, step: usize) -> Option<Change>
    ensures { result ≡ change_at old.now new.now step }
{
    if step < OPENINGS {
        return ended_at(step, &old.slots[step], &new.slots[step]);
    }
    if step < TAKE_OVERS {
        let slot = (step - OPENINGS) / 2;
        if step % 2 == 1 {
            return opened_at(slot, &old.slots[slot], &new.slots[slot]);
        }
        return ended_at_once(slot, &old.slots[slot], &new.slots[slot]);
    }
    if step < TROUBLES {
        let slot = step - TAKE_OVERS;
        return took_over_at(slot, &old.slots[slot], &new.slots[slot]);
    }
    if step < UNSEEN {
        let slot = (step - TROUBLES) / 3;
        return troubled_at(
            slot,
            trouble_at(step - TROUBLES),
            &old.slots[slot],
            &new.slots[slot],
        );
    }
    if step == UNSEEN {
        return unseen(old, new);
    }
    None
}
