//! Repeated refusals of one caller: the first one has its line, and the others are counted; each ten seconds a line tells the count.

ghost use Rattle.std.specs.Prelude.{◌≡◌, ◌≤◌, [], length, option_map, slice_get};
ghost use Rattle.std.specs.List.{position};
ghost use Rattle.arrayvec.specs.ArrayVec.{array_vec_len};
ghost use Rattle.srt_log.specs.Repeats.{caller_of, callers_of, front, begun, cause_number, is_of, is_over, is_lapsed, is_due, one_more, told_again};
ghost use Rattle.srt_log.specs.Repeats.{noted_first, noted_again, noted_instead, noted, telling_again, telling_of, begun_again, due_of};
ghost use Rattle.srt_log.specs.Repeats.{taken, taken_from};

use arrayvec::ArrayVec;
use srt_types::{NotAdmitted, Peer, Role};

/// The most callers of which repeated refusals are counted.
pub const MAX_REPEATS: usize = 32;

/// The first bytes of a name that count: a route's name has no more.
const MAX_FRONT: usize = 64;

/// The time in which repeated refusals of a caller are counted before their number is told, in microseconds.
const COUNTED_FOR: u64 = 10_000_000;

/// A refusal of a conclusion.
#[derive(Clone, Copy)]
pub struct Refusal<'a> {
    /// The number of the reason (draft-sharabayko-srt-01, section 4.3, table 7).
    pub code: u32,
    /// The caller's address and port.
    pub peer: Peer,
    /// The name that it requested, as it was received.
    pub name: &'a [u8],
    /// The reason for the rejection, if that is known.
    pub by: Option<NotAdmitted>,
}

/// How a refusal is told.
#[derive(Clone, Copy, PartialEq, Eq)]
pub enum Telling {
    /// By a line of its own.
    Line,
    /// In the count of its caller, which a later line tells.
    Counted,
}

/// A caller that was refused, and how often since its last line.
#[derive(Drop)]
pub struct Repeat {
    /// Its address; an IPv4 address is `::ffff:a.b.c.d`.
    pub ip: [u8; 16],
    /// The number of the reason.
    pub code: u32,
    /// The reason for the rejection, if that is known.
    pub by: Option<NotAdmitted>,
    /// The first bytes of the name that it requested.
    pub name: ArrayVec<u8, MAX_FRONT>,
    /// When its last line was written, in microseconds of the routes' clock.
    since: u64,
    /// The refusals that were counted since.
    pub count: u64,
}

impl Default for Repeat {
    fn default() -> Repeat {
        Repeat {
            ip: [0; 16],
            code: 0,
            by: None,
            name: ArrayVec::new(),
            since: 0,
            count: 0,
        }
    }
}

/// The first bytes of a name.
fn front_of(name: &[u8]) -> &[u8]
    ensures front { result.now ≡ front name.now }
    ensures most { length result.now ≤ 64 }
{
    if name.len() <= MAX_FRONT {
        return name;
    }
    &name[..MAX_FRONT]
}

/// A copy of a text.
fn copy_of(text: &[u8]) -> ArrayVec<u8, MAX_FRONT>
    requires { length text.now ≤ 64 }
    ensures { result.items ≡ text.now }
{
    let mut copy = ArrayVec::new();
    let _ = copy.try_extend_from_slice(text);
    copy
}

/// The caller of a refusal that has its line at this moment.
fn begun(refusal: Refusal<'_>, moment: u64) -> Repeat
    ensures { caller_of result ≡ begun refusal.entry moment }
{
    let Refusal {
        code,
        peer,
        name,
        by,
    } = refusal;
    let ip = peer.ip;
    Repeat {
        ip,
        code,
        by,
        name: copy_of(front_of(name)),
        since: moment,
        count: 0,
    }
}

/// The number of a cause, of which each has its own.
fn cause_number(by: Option<NotAdmitted>) -> u8
    ensures { result ≡ cause_number by }
{
    match by {
        None => 0,
        Some(NotAdmitted::NoName) => 1,
        Some(NotAdmitted::UnknownName) => 2,
        Some(NotAdmitted::Address(Role::Publish)) => 3,
        Some(NotAdmitted::Address(Role::Request)) => 4,
        Some(NotAdmitted::Key(Role::Publish)) => 5,
        Some(NotAdmitted::Key(Role::Request)) => 6,
    }
}

impl Repeat {
    /// Whether a refusal is of this caller, whatever its port, for the same name and reason.
    fn has(&self, refusal: Refusal<'_>) -> bool
        ensures { result ≡ is_of refusal.entry (caller_of self.now) }
    {
        self.ip[..] == refusal.peer.ip[..]
            && self.code == refusal.code
            && cause_number(self.by) == cause_number(refusal.by)
            && self.name.as_slice() == front_of(refusal.name)
    }

    /// Whether ten seconds have passed since its last line.
    fn is_over(&self, moment: u64) -> bool
        ensures { result ≡ is_over moment (caller_of self.now) }
    {
        moment.saturating_sub(self.since) >= COUNTED_FOR
    }

    /// Whether ten seconds have passed in which none was counted.
    fn is_lapsed(&self, moment: u64) -> bool
        ensures { result ≡ is_lapsed moment (caller_of self.now) }
    {
        self.is_over(moment) && self.count == 0
    }

    /// Whether ten seconds have passed in which some were counted.
    fn is_due(&self, moment: u64) -> bool
        ensures { result ≡ is_due moment (caller_of self.now) }
    {
        self.is_over(moment) && self.count != 0
    }

    /// The same caller as ten seconds more begin.
    fn begun_again(&self, moment: u64) -> Repeat
        ensures { caller_of result ≡ begun_again moment (caller_of self.now) }
    {
        let ip = self.ip;
        Repeat {
            ip,
            code: self.code,
            by: self.by,
            name: copy_of(self.name.as_slice()),
            since: moment,
            count: 0,
        }
    }

    /// Counts one more.
    fn with_one(self) -> Repeat
        ensures { caller_of result ≡ one_more (caller_of self) }
    {
        let mut more = self;
        more.count = more.count.saturating_add(1);
        more
    }
}

/// The first of these of which a refusal is.
fn place_of(callers: &[Repeat], refusal: Refusal<'_>) -> Option<usize>
    ensures { result ≡ position (is_of refusal.entry) (callers_of callers.now) }
{
    first_with(callers, refusal)
}

/// The same, by what the code has of each.
fn first_with(callers: &[Repeat], refusal: Refusal<'_>) -> Option<usize>
    ensures { result ≡ position (λ r. is_of refusal.entry (caller_of r)) callers.now }
{
    callers.iter().position(|caller| caller.has(refusal))
}

/// The first of these of which none was counted for ten seconds.
fn lapsed_in(callers: &[Repeat], moment: u64) -> Option<usize>
    ensures { result ≡ position (is_lapsed moment) (callers_of callers.now) }
{
    first_lapsed(callers, moment)
}

/// The same, by what the code has of each.
fn first_lapsed(callers: &[Repeat], moment: u64) -> Option<usize>
    ensures { result ≡ position (λ r. is_lapsed moment (caller_of r)) callers.now }
{
    callers.iter().position(|caller| caller.is_lapsed(moment))
}

/// The first of these of which some were counted for ten seconds.
fn due_in(callers: &[Repeat], moment: u64) -> Option<usize>
    ensures { result ≡ position (is_due moment) (callers_of callers.now) }
{
    first_due(callers, moment)
}

/// The same, by what the code has of each.
fn first_due(callers: &[Repeat], moment: u64) -> Option<usize>
    ensures { result ≡ position (λ r. is_due moment (caller_of r)) callers.now }
{
    callers.iter().position(|caller| caller.is_due(moment))
}

/// The callers that were refused, and how often since their last lines: at most [`MAX_REPEATS`]. Nothing that it does allocates.
#[derive(Drop)]
pub struct RefusalRepeats {
    callers: ArrayVec<Repeat, MAX_REPEATS>,
}

impl RefusalRepeats {
    /// Returns those before the first refusal.
    pub fn new() -> RefusalRepeats
        ensures { result.callers.items ≡ [] }
    {
        RefusalRepeats {
            callers: ArrayVec::new(),
        }
    }

    /// Notes a refusal of the caller at this place.
    #[tactic(auto, using(crate::proofs::Callers::get_seen, crate::proofs::Callers::behind_seen))]
    fn note_again(&mut self, at: usize, refusal: Refusal<'_>, moment: u64) -> Telling
        requires { length self.old.callers.items ≤ 32 }
        ensures callers { callers_of self.new.callers.items
            ≡ noted_again (callers_of self.old.callers.items) refusal.entry moment at (slice_get (callers_of self.old.callers.items) at) }
        ensures telling { result ≡ telling_again moment (slice_get (callers_of self.old.callers.items) at) }
    {
        let Some(caller) = self.callers.pop_at(at) else {
            return Telling::Line;
        };
        if caller.is_lapsed(moment) {
            self.callers.push(begun(refusal, moment));
            return Telling::Line;
        }
        self.callers.push(caller.with_one());
        Telling::Counted
    }

    /// Notes a refusal of another caller in place of the one at this place.
    #[tactic(auto, using(crate::proofs::Callers::get_seen, crate::proofs::Callers::behind_seen))]
    fn note_instead(&mut self, at: usize, refusal: Refusal<'_>, moment: u64)
        requires { length self.old.callers.items ≤ 32 }
        ensures { callers_of self.new.callers.items
            ≡ noted_instead (callers_of self.old.callers.items) refusal.entry moment at (slice_get (callers_of self.old.callers.items) at) }
    {
        let Some(_) = self.callers.pop_at(at) else {
            return;
        };
        self.callers.push(begun(refusal, moment));
    }

    /// Notes a refusal of a caller that has no place.
    #[tactic(auto, using(crate::proofs::Callers::added_seen, crate::proofs::Callers::many_seen))]
    fn note_first(&mut self, refusal: Refusal<'_>, moment: u64)
        ensures { callers_of self.new.callers.items ≡ noted_first (callers_of self.old.callers.items) refusal.entry moment }
    {
        if !self.callers.is_full() {
            self.callers.push(begun(refusal, moment));
            return;
        }
        let Some(at) = lapsed_in(self.callers.as_slice(), moment) else {
            return;
        };
        self.note_instead(at, refusal, moment);
    }

    /// Begins ten seconds more for the caller at this place, and returns it with its count.
    #[tactic(auto, using(crate::proofs::Callers::get_seen, crate::proofs::Callers::behind_seen))]
    fn take_from(&mut self, at: usize, moment: u64) -> Option<Repeat>
        requires { length self.old.callers.items ≤ 32 }
        ensures callers { callers_of self.new.callers.items
            ≡ taken_from (callers_of self.old.callers.items) moment at (slice_get (callers_of self.old.callers.items) at) }
        ensures caller { option_map caller_of result ≡ slice_get (callers_of self.old.callers.items) at }
    {
        let Some(caller) = self.callers.pop_at(at) else {
            return None;
        };
        self.callers.push(caller.begun_again(moment));
        Some(caller)
    }

    /// Notes a refusal at this moment, in microseconds of the routes' clock. Its line is to be written, unless a refusal of the same
    /// address, whatever the port, for the same name and reason has a line that isn't ten seconds old, or some were counted since: then
    /// it is counted. While [`MAX_REPEATS`] callers are known, and some were counted of each within ten seconds, each refusal of another
    /// caller has its line. A count stops at 2^64 - 1. Of names that are longer the first 64 bytes count.
    pub fn note(&mut self, refusal: Refusal<'_>, moment: u64) -> Telling
        ensures callers { callers_of self.new.callers.items ≡ noted (callers_of self.old.callers.items) refusal.entry moment }
        ensures telling { result ≡ telling_of (callers_of self.old.callers.items) refusal.entry moment }
    {
        match place_of(self.callers.as_slice(), refusal) {
            Some(at) => self.note_again(at, refusal, moment),
            None => {
                self.note_first(refusal, moment);
                Telling::Line
            }
        }
    }

    /// Returns a caller of which some were counted in ten seconds or more before this moment, with their number, to be told by a line; None
    /// if there is none. Another ten seconds begin then, with a count of 0. At the greatest moment each count that isn't told is due.
    pub fn take_due(&mut self, moment: u64) -> Option<Repeat>
        ensures callers { callers_of self.new.callers.items ≡ taken (callers_of self.old.callers.items) moment }
        ensures due { option_map caller_of result ≡ due_of (callers_of self.old.callers.items) moment }
    {
        match due_in(self.callers.as_slice(), moment) {
            Some(at) => self.take_from(at, moment),
            None => None,
        }
    }
}
