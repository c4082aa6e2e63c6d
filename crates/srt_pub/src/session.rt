//! A publisher's session: its start, data, ACKACKs, drop requests and delivery (draft-sharabayko-srt-01, sections 3.1,
//! 3.2.8, 3.2.9, 4.5 and 4.6).

ghost use Rattle.std.specs.Prelude.{◌≡◌, ℕ, ◌+◌, ◌-◌, ◌%◌, ◌^◌, ◌<◌, ◌≤◌, is_some, length, option_copied, IfOk, IfSome};
ghost use Rattle.srt_types.specs.Window.{word_of};
ghost use Rattle.srt_packet.specs.View.{body_of};
ghost use Rattle.srt_pub.specs.Heard.{heard_from};
ghost use Rattle.srt_pub.specs.Heard.Heard.{Data};
ghost use Rattle.srt_pub.specs.Publishing.{opened, with_request};
ghost use Rattle.srt_pub.specs.Calls.{ended, next_delivery, after_delivery};

use crate::counts::Counts;
use crate::due_times::Agreed;
use crate::ends::PubEnd;
use crate::log::Log;
use crate::opening::Opening;
use srt_packet::{Kind, PacketRef};
use srt_recvbuf::{Put, RecvBuf};
use srt_types::{Callers, Mode, PayloadRef, Seq31, Stamp32};
use std::alloc::{AllocError, Global};

/// A data packet without its timestamp.
#[derive(Clone, Copy)]
struct DataPacket<'a> {
    /// The first word, which is a sequence number if its top bit is 0.
    word: u32,
    /// The encryption field; 0 if it is unencrypted.
    encryption: u8,
    payload: PayloadRef<'a>,
}

/// A publisher's session. Times are microseconds of the route's clock, which never decreases; they are below 2^62.
#[derive(Drop)]
pub struct Publisher {
    /// The parameters of the opening.
    pub(crate) agreed: Agreed,
    /// The packets that are received and not yet delivered.
    pub(crate) buffer: RecvBuf,
    /// ACKs, round trips and the times of the last packets.
    pub(crate) log: Log,
    /// Counters since the opening.
    pub(crate) counts: Counts,
}

impl Publisher {
    ghost use Rattle.srt_pub.specs.Stands.{StandsFor, opening_of, width_of};
    ghost use Rattle.srt_pub.specs.Changes.{Becomes, BecomesAt, CatchesUp, ConfirmsAt, CountsAs, DropsInLiveMode, GivesNoneEmpty, HasBegun, HoldsOf};
    ghost use Rattle.srt_pub.specs.Changes.{HoldsOfAt, HearsAt, ReceivesAt, lost_by, data_from, range_between};
    ghost use Rattle.srt_recvbuf.specs.Changes.{payload_in};

    /// Allocates a session with a window of `width` packets, 32 to 8192; `start` begins it. The only call that
    /// allocates; the error is a failed allocation. O(width).
    pub fn open(alloc: Global, width: u32) -> Result<Publisher, AllocError>
        requires least { 32 ≤ width }
        requires most { width ≤ 8192 }
        ensures { IfOk result (λ p. StandsFor (record { mode = Mode.Live; width = width; delay = 0; callers = Callers.Draft }) 0 0 0 0 p opened) }
    {
        Ok(Publisher {
            agreed: Agreed {
                mode: Mode::Live,
                delay: 0,
                opening: 0,
                first: Stamp32::new(0),
                caller: 0,
            },
            buffer: RecvBuf::open(alloc, width)?,
            log: Log::open(alloc)?,
            counts: Counts::none(),
        })
    }

    /// Begins a session and discards the previous one. O(width).
    pub fn start(&mut self, opening: Opening)
        ensures stands { HasBegun opening (width_of self.old) self.new }
        ensures opening { opening_of self.new ≡ opening.now }
    {
        self.agreed = Agreed {
            mode: opening.mode,
            delay: opening.delay,
            opening: opening.now,
            first: opening.stamp,
            caller: opening.caller,
        };
        self.buffer.start(opening.initial);
        self.log.reset(opening.mode, opening.callers);
        self.counts = Counts::none();
    }

    /// Processes a packet of the caller that arrives at `now`: a data packet, an ACKACK, a drop request or a SHUTDOWN.
    /// Other kinds change nothing. Returns why the packet ends the session, or None if the session continues. Doesn't
    /// allocate; a payload is copied once. A drop request is linear in the numbers of the window that it covers, other
    /// kinds are O(1) on average.
    pub fn datagram(&mut self, packet: &PacketRef<'_>, now: u64) -> Option<PubEnd>
        requires { now < 2 ^ 62 }
        ensures stands { HearsAt now packet.now.stamp self.old self.new (λ initial. heard_from initial (body_of packet.now.kind)) }
        ensures opening { opening_of self.new ≡ opening_of self.old }
        ensures end { HoldsOf self.old (λ terms initial m. result ≡ ended terms initial (body_of packet.now.kind) m) }
    {
        match packet.kind {
            Kind::Data {
                number,
                encryption,
                payload,
            } => {
                let data = DataPacket {
                    word: number,
                    encryption,
                    payload,
                };
                self.data(data, packet.stamp, now)
            }
            Kind::AckAck { number } => {
                self.ack_ack(number, packet.stamp, now);
                None
            }
            Kind::DropRequest {
                message: _,
                first,
                last,
            } => {
                self.drop_request(first, last);
                None
            }
            Kind::Shutdown => Some(PubEnd::Shutdown),
            _ => None,
        }
    }

    /// Processes a data packet (section 3.1). An encrypted one changes nothing (our choice).
    fn data(&mut self, packet: DataPacket<'_>, stamp: u32, now: u64) -> Option<PubEnd>
        requires { now < 2 ^ 62 }
        ensures stands { HearsAt now stamp self.old self.new
            (λ initial. data_from initial packet.entry.word packet.entry.encryption packet.entry.payload.bytes.now) }
        ensures opening { opening_of self.new ≡ opening_of self.old }
        ensures end { HoldsOf self.old
            (λ terms initial m.
            result ≡ lost_by terms (data_from initial packet.entry.word packet.entry.encryption packet.entry.payload.bytes.now) m) }
    {
        if packet.encryption != 0 {
            return None;
        }
        let lost = self.loses_window(packet.word);
        self.receive(packet.word, packet.payload, stamp, now);
        if lost { Some(PubEnd::WindowLost) } else { None }
    }

    /// Processes an unencrypted data packet. One whose number has its top bit set is counted and not stored.
    fn receive(&mut self, word: u32, payload: PayloadRef<'_>, stamp: u32, now: u64)
        requires { now < 2 ^ 62 }
        ensures stands { ReceivesAt now stamp word payload.entry.bytes.now self.old self.new }
        ensures opening { opening_of self.new ≡ opening_of self.old }
    {
        let region = self.region_of(word);
        let time = now.saturating_sub(self.agreed.opening);
        self.counts.come(region);
        let Some(number) = Seq31::new(word) else {
            self.log.note_data(Put::Outside, time);
            return;
        };
        let due = self.agreed.due(self.log.correction(), stamp, now);
        let front = self.buffer.front();
        let point = self.buffer.ack_point();
        let put = self.buffer.put(number, due, payload);
        self.log.note_data(put, time);
        self.counts.store(put, payload);
        self.follow(front, point, false);
    }

    /// Records how far the front and the acknowledgement point moved from these values to the buffer's current ones.
    /// Counts what the front passed: a delivered packet if `is_due`, and numbers that are given up.
    fn follow(&mut self, front: Seq31, point: Seq31, is_due: bool)
        ensures stands { CatchesUp front point is_due self.old self.new }
        ensures opening { opening_of self.new ≡ opening_of self.old }
    {
        let front_steps = steps(front, self.buffer.front());
        let point_steps = steps(point, self.buffer.ack_point());
        self.log.moves(front_steps, point_steps);
        self.counts.count_passed(front_steps, is_due);
    }

    /// Processes an ACKACK (section 3.2.8).
    fn ack_ack(&mut self, number: u32, stamp: u32, now: u64)
        requires { now < 2 ^ 62 }
        ensures stands { ConfirmsAt now stamp number self.old self.new }
        ensures opening { opening_of self.new ≡ opening_of self.old }
    {
        let since_conclusion = self.agreed.since_conclusion(stamp);
        let time = now.saturating_sub(self.agreed.opening);
        self.log.confirm(number, time, since_conclusion);
    }

    /// Processes a drop request (section 3.2.9). In buffer mode it changes nothing (our choice).
    fn drop_request(&mut self, first: u32, last: u32)
        ensures stands { Becomes self.old self.new (λ terms initial m. with_request terms.mode terms (range_between initial first last) m) }
        ensures opening { opening_of self.new ≡ opening_of self.old }
    {
        match self.agreed.mode {
            Mode::Live => self.drop_range(first, last),
            Mode::Buffer => {}
        }
    }

    /// Drops the numbers from `first` to `last`, inclusive. Nothing changes if one of them has its top bit set.
    fn drop_range(&mut self, first: u32, last: u32)
        ensures stands { DropsInLiveMode first last self.old self.new }
        ensures opening { opening_of self.new ≡ opening_of self.old }
    {
        let Some(first) = Seq31::new(first) else {
            return;
        };
        let Some(last) = Seq31::new(last) else {
            return;
        };
        let front = self.buffer.front();
        let point = self.buffer.ack_point();
        self.buffer.dropped(first, last);
        self.follow(front, point, false);
    }

    /// Returns the payload that is to be delivered next, 1 to 1456 bytes, if one is due at `now` (sections 4.5 and
    /// 4.6). O(1), and no byte is copied. The payload stays in the buffer until `note_delivered` is called. In live
    /// mode a missing packet is given up once a later one is due, and `room` is ignored. In buffer mode payloads are
    /// delivered without gaps, and only if `room` isn't 0. It is the number of payloads for which every subscriber has
    /// room, and 0 without a subscriber (section 4.2.2; our choice).
    ///
    /// An event delivers at most 64 payloads (our choice). The caller enforces that limit: it calls `next_due` and
    /// `note_delivered` until there is no payload or 64 are delivered.
    pub fn next_due(&self, now: u64, room: u32) -> Option<&[u8]>
        requires early { now < 2 ^ 62 }
        ensures payload { HoldsOfAt now self.now (λ terms time m. option_copied result ≡ payload_in (next_delivery terms time room m)) }
        ensures some { GivesNoneEmpty now self.now (option_copied result) }
        ensures fits { IfSome result (λ p. length p.now ≤ 1456) }
    {
        self.buffer.next_due(now, self.room_that_counts(room))
    }

    /// Removes the payload that `next_due` returns for the same `now` and `room`: it was delivered, or is skipped
    /// because the publisher is on standby. Returns whether there was one; if not, nothing changes.
    pub fn note_delivered(&mut self, now: u64, room: u32) -> bool
        requires early { now < 2 ^ 62 }
        ensures stands { BecomesAt now self.old self.new (λ terms time m. after_delivery terms (next_delivery terms time room m) m) }
        ensures opening { opening_of self.new ≡ opening_of self.old }
        ensures answer { HoldsOfAt now self.old (λ terms time m. result ≡ is_some (next_delivery terms time room m)) }
    {
        let counted = self.room_that_counts(room);
        let front = self.buffer.front();
        let point = self.buffer.ack_point();
        let is_due = self.buffer.note_delivered(now, counted);
        self.follow(front, point, is_due);
        is_due
    }

    /// Returns the room with which the buffer yields the payload that is to be delivered next: 1 in live mode, where
    /// the room is ignored; in buffer mode `room`, or 0 if the front's number is missing, since no gap is skipped
    /// there.
    fn room_that_counts(&self, room: u32) -> u32
        ensures { HoldsOf self.now (λ terms initial m. CountsAs terms room result m) }
    {
        match self.agreed.mode {
            Mode::Live => 1,
            Mode::Buffer => self.room_in_order(room),
        }
    }

    /// Returns that room for buffer mode.
    fn room_in_order(&self, room: u32) -> u32
        ensures { HoldsOf self.now (λ terms initial m. terms.mode ≡ Mode.Buffer → CountsAs terms room result m) }
    {
        if steps(self.buffer.front(), self.buffer.ack_point()) == 0 {
            return 0;
        }
        room
    }
}

/// Returns the number of packets from `from` on to `to`; 0 if that is 2^31 or more.
pub(crate) fn steps(from: Seq31, to: Seq31) -> u32
    ensures { (a b : ℕ) → a ≤ b → b < a + 2 ^ 31 → word_of from ≡ a % 2 ^ 31 → word_of to ≡ b % 2 ^ 31 → result ≡ b - a }
{
    to.offset_in(from, 1 << 31).unwrap_or(0)
}
