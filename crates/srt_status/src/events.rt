//! The last lines of the gateway's log, in fixed memory.

ghost use Rattle.std.specs.Prelude.{◌≡◌, ◌<◌, ◌≤◌, ◌++◌, [], length, OnOk};
ghost use Rattle.std.specs.List.{flat_map, list_all};
ghost use Rattle.arrayvec.specs.ArrayVec.{array_vec_len};
ghost use Rattle.srt_status.specs.Events.{kept_as, is_inner, is_of_refusal, cut_at, cut, is_flooded, with_room, HasKept, event_start};
ghost use Rattle.srt_status.specs.Events.{event_json, next_event_json, some_events_json, events_json};

use crate::text::{put, put_micros, put_shown_bytes};
use arrayvec::ArrayVec;
use std::alloc::AllocError;

/// The number of lines that are kept: the last ones.
pub const MAX_EVENTS: usize = 50;

/// The maximum length of a line that is kept, in bytes.
pub const MAX_EVENT_TEXT: usize = 512;

/// The maximum number of lines in a row that are about refused callers.
pub const MAX_REFUSALS_IN_A_ROW: usize = 10;

/// A line of the log.
#[derive(Drop)]
pub struct Event {
    /// When it was written, in microseconds of the routes' clock.
    moment: u64,
    /// Whether it is about a refused caller.
    is_refusal: bool,
    text: ArrayVec<u8, MAX_EVENT_TEXT>,
}

impl Default for Event {
    fn default() -> Event {
        Event {
            moment: 0,
            is_refusal: false,
            text: ArrayVec::new(),
        }
    }
}

/// The last lines of the log, the oldest first: at most [`MAX_EVENTS`]. Nothing that it does allocates.
#[derive(Drop)]
pub struct EventRing {
    events: ArrayVec<Event, MAX_EVENTS>,
}

/// Whether a byte of a text continues a character of UTF-8.
fn is_inner(byte: u8) -> bool
    ensures { result ≡ is_inner byte }
{
    byte / 64 == 2
}

/// Where a longer text than [`MAX_EVENT_TEXT`] is cut: before the character that doesn't end within it. A character of UTF-8
/// has at most four bytes.
fn cut_at(text: &[u8]) -> usize
    requires { 512 < length text.now }
    ensures value { result ≡ cut_at text.now }
    ensures most { result ≤ 512 }
{
    if !is_inner(text[512]) {
        return 512;
    }
    if !is_inner(text[511]) {
        return 511;
    }
    if !is_inner(text[510]) {
        return 510;
    }
    509
}

/// The beginning of a text that is kept: at most [`MAX_EVENT_TEXT`] bytes.
fn cut(text: &[u8]) -> &[u8]
    ensures value { result.now ≡ cut text.now }
    ensures most { length result.now ≤ 512 }
{
    if text.len() <= MAX_EVENT_TEXT {
        return text;
    }
    &text[..cut_at(text)]
}

/// A copy of a text.
fn copy_of(text: &[u8]) -> ArrayVec<u8, MAX_EVENT_TEXT>
    requires { length text.now ≤ 512 }
    ensures { result.items ≡ text.now }
{
    let mut copy = ArrayVec::new();
    let _ = copy.try_extend_from_slice(text);
    copy
}

/// The event of a line.
fn event_of(moment: u64, is_refusal: bool, text: &[u8]) -> Event
    ensures { kept_as result ≡ record { moment = moment; is_refusal = is_refusal; text = cut text.now } }
{
    Event {
        moment,
        is_refusal,
        text: copy_of(cut(text)),
    }
}

/// Whether all of these are refusals.
fn are_refusals(events: &[Event]) -> bool
    ensures { result ≡ list_all is_of_refusal events.now }
{
    events.iter().all(|event| event.is_refusal)
}

/// Whether the last events are as many refusals as are kept in a row.
fn is_flooded(events: &[Event]) -> bool
    ensures { result ≡ is_flooded events.now }
{
    if events.len() < MAX_REFUSALS_IN_A_ROW {
        return false;
    }
    are_refusals(&events[events.len() - MAX_REFUSALS_IN_A_ROW..])
}

impl EventRing {
    /// Returns one without events.
    pub fn new() -> EventRing
        ensures { result.events.items ≡ [] }
    {
        EventRing {
            events: ArrayVec::new(),
        }
    }

    /// Makes room for one more event.
    fn make_room(&mut self, is_refusal: bool)
        ensures events { self.new.events.items ≡ with_room self.old.events.items is_refusal }
        ensures room { array_vec_len self.new.events < 50 }
    {
        if is_refusal && is_flooded(self.events.as_slice()) {
            let first = self.events.len() - MAX_REFUSALS_IN_A_ROW;
            self.events.remove(first);
            return;
        }
        if self.events.is_full() {
            self.events.remove(0);
        }
    }

    /// Keeps a line of the log, which was written at this moment, in microseconds of the routes' clock: the oldest one goes
    /// if there are [`MAX_EVENTS`]. So that a flood of refused callers doesn't displace all others, at most
    /// [`MAX_REFUSALS_IN_A_ROW`] refusals in a row are kept: of one more, the first of them goes. A text of more than
    /// [`MAX_EVENT_TEXT`] bytes is cut before a character.
    pub fn push(&mut self, moment: u64, is_refusal: bool, text: &[u8])
        ensures { HasKept self.old.events.items self.new.events.items moment is_refusal text.now }
    {
        let event = event_of(moment, is_refusal, text);
        self.make_room(is_refusal);
        self.events.push(event);
    }
}

#[tactic(auto, unfolding(crate::specs::Events::event_start))]
fn put_event_start(out: &mut Vec<u8>) -> Result<(), AllocError>
    ensures { OnOk result (out.new.items ≡ out.old.items ++ event_start) }
{
    put(out, b"{\"seconds\":")
}

/// Puts an event.
#[tactic(auto, using(crate::proofs::Puts::joined), unfolding(crate::specs::Events::event_json))]
fn put_event(out: &mut Vec<u8>, event: &Event) -> Result<(), AllocError>
    ensures { OnOk result (out.new.items ≡ out.old.items ++ event_json event.now) }
{
    put_event_start(out)?;
    put_micros(out, event.moment)?;
    put(out, b",\"text\":\"")?;
    put_shown_bytes(out, event.text.as_slice())?;
    put(out, b"\"}")
}

/// Puts an event that isn't the first one.
#[tactic(auto, using(crate::proofs::Puts::joined), unfolding(crate::specs::Events::next_event_json))]
fn put_next_event(out: &mut Vec<u8>, event: &Event) -> Result<(), AllocError>
    ensures { OnOk result (out.new.items ≡ out.old.items ++ next_event_json event.now) }
{
    put(out, b",")?;
    put_event(out, event)
}

/// Puts events, none of which is the first one.
#[tactic(auto, using(crate::proofs::Puts::one_more))]
fn put_next_events(out: &mut Vec<u8>, events: &[Event]) -> Result<(), AllocError>
    ensures { OnOk result (out.new.items ≡ out.old.items ++ flat_map next_event_json events.now) }
{
    for event in events {
        put_next_event(out, event)?;
    }
    Ok(())
}

/// Puts events with commas between them.
#[tactic(auto, using(crate::proofs::Puts::joined))]
fn put_some_events(out: &mut Vec<u8>, events: &[Event]) -> Result<(), AllocError>
    ensures { OnOk result (out.new.items ≡ out.old.items ++ some_events_json events.now) }
{
    match events {
        [] => put(out, b""),
        [event, rest @ ..] => {
            put_event(out, event)?;
            put_next_events(out, rest)
        }
    }
}

/// Puts the events as one JSON array, the oldest first. An error means that memory was refused.
#[tactic(auto, using(crate::proofs::Puts::joined))]
pub(crate) fn put_events(out: &mut Vec<u8>, ring: &EventRing) -> Result<(), AllocError>
    ensures { OnOk result (out.new.items ≡ out.old.items ++ events_json ring.now.events.items) }
{
    put(out, b"[")?;
    put_some_events(out, ring.events.as_slice())?;
    put(out, b"]\n")
}
