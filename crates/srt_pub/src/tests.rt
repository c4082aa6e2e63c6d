//! Sessions as the bytes that they receive and send. Each was opened at one second by a caller with the socket ID 1.

ghost use Rattle.std.specs.Prelude.{◌≤◌};

use crate::{Counts, Opening, PubEnd, Publisher, Statistics};
use srt_packet::{EncodedPacket, decode};
use srt_samples::{
    Acknowledged, Loss, Sample, ack, ack_ack, data_packet, drop_request, first_difference,
    full_ack, keep_alive, light_ack, nak, shutdown,
};
use srt_types::{Callers, Mode, Seq31, Stamp32};
use std::alloc::Global;
use std::process::Abort;
use std::test::Fail;

/// Time of each session's opening, in microseconds.
const OPENING: u64 = 1_000_000;

/// Socket ID of the session: the destination of received packets.
const SESSION: u32 = 0x10_0000;

/// Socket ID of the caller: the destination of sent packets.
const CALLER: u32 = 1;

fn session(
    alloc: Global,
    width: u32,
    initial: u32,
    mode: Mode,
    delay: u32,
) -> Result<Publisher, Fail>
    requires least { 32 ≤ width }
    requires most { width ≤ 8192 }
{
    session_with(alloc, width, initial, mode, delay, Callers::Draft)
}

/// Returns a session with callers that follow these rules.
fn session_with(
    alloc: Global,
    width: u32,
    initial: u32,
    mode: Mode,
    delay: u32,
    callers: Callers,
) -> Result<Publisher, Fail>
    requires least { 32 ≤ width }
    requires most { width ≤ 8192 }
{
    let Some(initial) = Seq31::new(initial) else {
        return Err(Fail::from("a word with its top bit set"));
    };
    let mut publisher = Publisher::open(alloc, width)?;
    publisher.start(Opening {
        now: OPENING,
        stamp: Stamp32::new(0),
        initial,
        caller: CALLER,
        mode,
        delay,
        callers,
    });
    Ok(publisher)
}

/// Returns a data packet with this sequence number, message number, timestamp in microseconds and payload.
fn media<'a>(number: u32, message: u32, stamp: u32, payload: &'a [u8]) -> Sample<'a> {
    data_packet(number)
        .flags(0xe000_0000 | message)
        .stamp(stamp)
        .to(SESSION)
        .payload(payload)
}

/// Returns the same packet with the retransmission flag.
fn media_again<'a>(number: u32, message: u32, stamp: u32, payload: &'a [u8]) -> Sample<'a> {
    media(number, message, stamp, payload).flags(0xe400_0000 | message)
}

/// Returns a Full ACK with this number, acknowledgement point and available buffer size, before any round trip was
/// measured.
fn acknowledges<'a>(number: u32, point: u32, available: u32) -> Sample<'a> {
    full_ack(
        number,
        Acknowledged {
            point,
            rtt: 100_000,
            variance: 50_000,
            available,
        },
    )
}

/// An event and its expected result. The first field is its time, in microseconds since the opening. Packets that are
/// sent have it as their timestamp, and the caller's socket ID as their destination.
#[derive(Clone, Copy)]
enum Event<'a> {
    /// A packet arrives and doesn't end the session.
    Comes(u32, Sample<'a>),
    /// A packet arrives and ends the session.
    Ends(u32, Sample<'a>, PubEnd),
    /// With this room, this payload is delivered; empty if none is.
    Delivers(u32, u32, &'a [u8]),
    /// Whether a payload is skipped.
    PassesOver(u32, bool),
    /// An ACK is sent and nothing else.
    SendsAck(u32, Sample<'a>),
    /// A NAK is sent and nothing else.
    SendsNak(u32, Sample<'a>),
    /// An ACK and a NAK are sent.
    SendsBoth(u32, Sample<'a>, Sample<'a>),
    /// A KEEPALIVE is sent and nothing else.
    SendsKeepAlive(u32),
    /// Nothing is sent.
    SendsNothing(u32),
}

fn hear(publisher: &mut Publisher, bytes: &[u8], time: u32) -> Result<Option<PubEnd>, Fail> {
    let Ok(packet) = decode(bytes) else {
        return Err(Fail::from("a packet"));
    };
    Ok(publisher.datagram(&packet, OPENING + u64::from(time)))
}

/// Asserts the packet that was written at this time, to the caller.
fn assert_written(
    rt: &(impl AllocGlobal + Abort),
    written: bool,
    packet: &EncodedPacket,
    time: u32,
    wanted: Option<Sample<'_>>,
) -> Result<(), Fail> {
    assert_eq!(rt; written, wanted.is_some());
    match wanted {
        Some(sample) => {
            let bytes = sample.stamp(time).to(CALLER).bytes(rt.alloc())?;
            assert_eq!(rt; first_difference(packet.bytes(), &bytes), None);
        }
        None => assert!(rt; packet.bytes().is_empty()),
    }
    Ok(())
}

/// Asserts the ACK, the NAK and the KEEPALIVE that an event sends at its end.
fn assert_sent(
    rt: &(impl AllocGlobal + Abort),
    publisher: &mut Publisher,
    time: u32,
    wanted: [Option<Sample<'_>>; 3],
) -> Result<(), Fail> {
    let mut ack = EncodedPacket::new();
    let mut nak = EncodedPacket::new();
    let mut keep_alive = EncodedPacket::new();
    let now = OPENING + u64::from(time);
    let sent = publisher.transmit(now, &mut ack, &mut nak, &mut keep_alive);
    assert_written(rt, sent.ack, &ack, time, wanted[0])?;
    assert_written(rt, sent.nak, &nak, time, wanted[1])?;
    assert_written(rt, sent.keep_alive, &keep_alive, time, wanted[2])
}

/// Asserts whether a packet ends the session, and why.
fn assert_heard(
    rt: &(impl AllocGlobal + Abort),
    publisher: &mut Publisher,
    time: u32,
    sample: Sample<'_>,
    end: Option<PubEnd>,
) -> Result<(), Fail> {
    let bytes = sample.bytes(rt.alloc())?;
    assert_eq!(rt; hear(publisher, bytes.as_slice(), time)?, end);
    Ok(())
}

/// Asserts the payload that is delivered.
fn assert_delivered(
    rt: &(impl AllocGlobal + Abort),
    publisher: &mut Publisher,
    time: u32,
    room: u32,
    wanted: &[u8],
) -> Result<(), Fail> {
    let now = OPENING + u64::from(time);
    match publisher.next_due(now, room) {
        Some(payload) => assert_eq!(rt; payload, wanted),
        None => assert!(rt; wanted.is_empty()),
    }
    assert_eq!(rt; publisher.note_delivered(now, room), !wanted.is_empty());
    Ok(())
}

/// Asserts one event.
fn assert_event(
    rt: &(impl AllocGlobal + Abort),
    publisher: &mut Publisher,
    event: Event<'_>,
) -> Result<(), Fail> {
    match event {
        Event::Comes(time, sample) => assert_heard(rt, publisher, time, sample, None),
        Event::Ends(time, sample, end) => assert_heard(rt, publisher, time, sample, Some(end)),
        Event::Delivers(time, room, payload) => {
            assert_delivered(rt, publisher, time, room, payload)
        }
        Event::PassesOver(time, wanted) => {
            assert_eq!(rt;
                publisher.note_delivered(OPENING + u64::from(time), 0),
                wanted
            );
            Ok(())
        }
        Event::SendsAck(time, ack) => assert_sent(rt, publisher, time, [Some(ack), None, None]),
        Event::SendsNak(time, nak) => assert_sent(rt, publisher, time, [None, Some(nak), None]),
        Event::SendsBoth(time, ack, nak) => {
            assert_sent(rt, publisher, time, [Some(ack), Some(nak), None])
        }
        Event::SendsKeepAlive(time) => {
            assert_sent(rt, publisher, time, [None, None, Some(keep_alive())])
        }
        Event::SendsNothing(time) => assert_sent(rt, publisher, time, [None, None, None]),
    }
}

/// Asserts these events in order.
fn assert_events(
    rt: &(impl AllocGlobal + Abort),
    publisher: &mut Publisher,
    events: &[Event<'_>],
) -> Result<(), Fail> {
    for event in events {
        assert_event(rt, publisher, *event)?;
    }
    Ok(())
}

/// Passes a data packet of one byte, with this number, 9 ms after the opening. Its timestamp is 9 ms too.
fn hear_number(
    alloc: Global,
    publisher: &mut Publisher,
    number: u8,
) -> Result<Option<PubEnd>, Fail> {
    let bytes = media(u32::from(number), 1, 9_000, b"a").bytes(alloc)?;
    hear(publisher, bytes.as_slice(), 9_000)
}

#[test]
fn a_gap_an_acknowledgement_and_its_confirmation(rt: HostRuntime) -> Result<(), Fail> {
    let mut publisher = session(rt.alloc(), 1024, 7, Mode::Live, 1_000_000)?;
    assert_events(
        &rt,
        &mut publisher,
        &[
            Event::Comes(1_000, media(7, 1, 1_000, b"a")),
            Event::SendsNothing(1_000),
            Event::Comes(1_000, media(9, 3, 1_000, b"a")),
            Event::SendsNak(1_000, nak(&[Loss::Single(8)])),
            Event::SendsBoth(150_000, acknowledges(1, 8, 1023), nak(&[Loss::Single(8)])),
            Event::Comes(170_000, ack_ack(1).to(SESSION)),
            Event::SendsNothing(170_000),
            // a second confirmation changes nothing
            Event::Comes(180_000, ack_ack(1).to(SESSION)),
            Event::SendsNothing(309_999),
            Event::SendsNak(310_000, nak(&[Loss::Single(8)])),
        ],
    )
}

#[test]
fn a_light_ack_after_64_packets(rt: HostRuntime) -> Result<(), Fail> {
    let mut publisher = session(rt.alloc(), 1024, 0, Mode::Live, 120_000)?;
    for number in 0..63u8 {
        hear_number(rt.alloc(), &mut publisher, number)?;
        assert_event(&rt, &mut publisher, Event::SendsNothing(9_000))?;
    }
    hear_number(rt.alloc(), &mut publisher, 63)?;
    assert_events(
        &rt,
        &mut publisher,
        &[
            Event::SendsAck(9_000, light_ack(64)),
            Event::SendsAck(10_000, acknowledges(1, 64, 960)),
        ],
    )
}

/// Number 2 and every second one up to 66 arrive: there are 33 runs, and the NAK omits the last. Its runs are 0 and 1, 3, 5 and
/// so on up to 63.
#[test]
fn a_nak_of_32_runs(rt: HostRuntime) -> Result<(), Fail> {
    let mut publisher = session(rt.alloc(), 128, 0, Mode::Live, 1_000_000)?;
    for half in 1..34u8 {
        hear_number(rt.alloc(), &mut publisher, 2 * half)?;
    }
    let mut runs = [Loss::Range(0, 1); 32];
    for k in 1..32usize {
        runs[k] = Loss::Single(2 * k as u32 + 1);
    }
    assert_event(&rt, &mut publisher, Event::SendsNak(150_000, nak(&runs)))
}

#[test]
fn numbers_go_round(rt: HostRuntime) -> Result<(), Fail> {
    let mut publisher = session(rt.alloc(), 32, 0x7fff_ffff, Mode::Live, 120_000)?;
    assert_events(
        &rt,
        &mut publisher,
        &[
            Event::Comes(1_000, media(0x7fff_ffff, 1, 1_000, b"a")),
            Event::Comes(1_000, media(0, 2, 1_000, b"a")),
            // past the window
            Event::Comes(1_000, media(31, 33, 1_000, b"a")),
            Event::SendsAck(10_000, acknowledges(1, 1, 30)),
            Event::Comes(11_000, media(30, 32, 1_000, b"a")),
            Event::SendsNak(11_000, nak(&[Loss::Range(1, 29)])),
            // below the window
            Event::Comes(12_000, media_again(2_147_483_646, 0, 1_000, b"a")),
        ],
    )?;
    // The NAK reports the numbers 1 to 29.
    let counts = publisher.statistics().counts;
    assert_eq!(rt; (counts.arrived, counts.received), (5, 3));
    assert_eq!(rt; (counts.late, counts.ahead), (1, 1));
    assert_eq!(rt; (counts.naks, counts.reported_lost), (1, 29));
    Ok(())
}

#[test]
fn a_full_window_in_buffer_mode(rt: HostRuntime) -> Result<(), Fail> {
    let mut publisher = session(rt.alloc(), 32, 100, Mode::Buffer, 0)?;
    for number in 100..132u8 {
        hear_number(rt.alloc(), &mut publisher, number)?;
    }
    assert_events(
        &rt,
        &mut publisher,
        &[
            Event::Delivers(10_000, 0, b""),
            Event::SendsAck(10_000, acknowledges(1, 132, 0)),
            Event::Delivers(20_000, 1, b"a"),
            Event::SendsAck(20_000, acknowledges(2, 132, 1)),
        ],
    )
}

/// Each of the 32 numbers arrives twice, so that a Light ACK is due before the Full ACKs. It doesn't report the
/// window.
#[test]
fn full_acks_of_a_full_window_are_counted(rt: HostRuntime) -> Result<(), Fail> {
    let mut publisher = session(rt.alloc(), 32, 100, Mode::Buffer, 0)?;
    for number in 100..132u8 {
        hear_number(rt.alloc(), &mut publisher, number)?;
        hear_number(rt.alloc(), &mut publisher, number)?;
    }
    assert_event(&rt, &mut publisher, Event::SendsAck(9_000, light_ack(132)))?;
    assert_eq!(rt; publisher.statistics().counts.full_window_acks, 0);
    assert_events(
        &rt,
        &mut publisher,
        &[
            Event::SendsAck(10_000, acknowledges(1, 132, 0)),
            Event::SendsNothing(19_999),
            Event::SendsAck(20_000, acknowledges(2, 132, 0)),
            Event::Delivers(30_000, 1, b"a"),
            Event::SendsAck(30_000, acknowledges(3, 132, 1)),
        ],
    )?;
    assert_eq!(rt; publisher.statistics().counts.full_window_acks, 2);
    Ok(())
}

#[test]
fn a_number_past_the_window_ends_it(rt: HostRuntime) -> Result<(), Fail> {
    let mut waiting = session(rt.alloc(), 32, 0, Mode::Live, 120_000)?;
    assert_events(
        &rt,
        &mut waiting,
        &[
            Event::Comes(0, media(31, 32, 0, b"a")),
            Event::Comes(0, media(32, 33, 0, b"a")),
        ],
    )?;
    let mut empty = session(rt.alloc(), 32, 0, Mode::Live, 120_000)?;
    assert_events(
        &rt,
        &mut empty,
        &[
            Event::Ends(0, media(32, 33, 0, b"a"), PubEnd::WindowLost),
            Event::Ends(0, shutdown().to(SESSION), PubEnd::Shutdown),
        ],
    )
}

/// Returns a session in which the numbers 9 and 7 arrived, and 8 is missing.
fn behind_a_gap(rt: &(impl AllocGlobal + Abort)) -> Result<Publisher, Fail> {
    let mut publisher = session(rt.alloc(), 1024, 7, Mode::Live, 100_000)?;
    let events = [
        Event::Comes(1_000, media(9, 3, 1_000, b"b")),
        Event::Comes(1_000, media(7, 1, 500, b"a")),
    ];
    assert_events(rt, &mut publisher, &events)?;
    Ok(publisher)
}

#[test]
fn a_packet_behind_a_gap_is_delivered_at_its_moment(rt: HostRuntime) -> Result<(), Fail> {
    let mut publisher = behind_a_gap(&rt)?;
    assert_events(
        &rt,
        &mut publisher,
        &[
            Event::Delivers(100_499, 1, b""),
            Event::Delivers(100_500, 1, b"a"),
            Event::Delivers(100_999, 1, b""),
            Event::Delivers(101_000, 0, b"b"),
            Event::Delivers(101_000, 1, b""),
            Event::SendsAck(101_000, acknowledges(1, 10, 1024)),
        ],
    )
}

/// The same as the previous test, for a standby publisher.
#[test]
fn payloads_are_passed_over_as_they_are_delivered(rt: HostRuntime) -> Result<(), Fail> {
    let mut publisher = behind_a_gap(&rt)?;
    assert_events(
        &rt,
        &mut publisher,
        &[
            Event::PassesOver(100_499, false),
            Event::PassesOver(100_500, true),
            Event::PassesOver(100_999, false),
            Event::PassesOver(101_000, true),
            Event::PassesOver(101_000, false),
            Event::SendsAck(101_000, acknowledges(1, 10, 1024)),
        ],
    )?;
    let mut in_order = session(rt.alloc(), 32, 100, Mode::Buffer, 0)?;
    hear_number(rt.alloc(), &mut in_order, 100)?;
    assert_events(
        &rt,
        &mut in_order,
        &[
            Event::PassesOver(10_000, false),
            Event::Delivers(10_000, 1, b"a"),
        ],
    )
}

#[test]
fn a_dropped_number_may_still_come(rt: HostRuntime) -> Result<(), Fail> {
    let mut publisher = session(rt.alloc(), 32, 7, Mode::Live, 100_000)?;
    assert_events(
        &rt,
        &mut publisher,
        &[
            Event::Comes(1_000, media(9, 3, 1_000, b"c")),
            Event::Comes(2_000, drop_request(0, 8, 10).to(SESSION)),
            // 7 is still missing
            Event::SendsNak(2_000, nak(&[Loss::Single(7)])),
            Event::Comes(3_000, media_again(8, 2, 900, b"b")),
            Event::Comes(3_000, media_again(7, 1, 800, b"a")),
            Event::Delivers(101_000, 0, b"a"),
            Event::Delivers(101_000, 0, b"b"),
            Event::Delivers(101_000, 0, b"c"),
            Event::SendsAck(101_000, acknowledges(1, 11, 32)),
        ],
    )
}

#[test]
fn a_keep_alive_after_a_second(rt: HostRuntime) -> Result<(), Fail> {
    let mut publisher = session(rt.alloc(), 32, 0, Mode::Buffer, 0)?;
    assert_events(
        &rt,
        &mut publisher,
        &[
            Event::SendsNothing(999_999),
            Event::SendsKeepAlive(1_000_000),
        ],
    )
}

/// Number 9 arrives twice, 6 is below the window, and the fourth packet is encrypted. The sender drops 8 to 10, and 7
/// never arrives: so 7, 8 and 10 are given up once 9 is due.
#[test]
fn what_a_session_counts(rt: HostRuntime) -> Result<(), Fail> {
    let mut publisher = session(rt.alloc(), 32, 7, Mode::Live, 100_000)?;
    assert_events(
        &rt,
        &mut publisher,
        &[
            Event::Comes(1_000, media(9, 3, 1_000, b"cb")),
            Event::Comes(1_000, media_again(9, 3, 1_000, b"cb")),
            Event::Comes(1_000, media(6, 3, 1_000, b"a")),
            Event::Comes(1_000, media(7, 1, 1_000, b"a").flags(0xe800_0001)),
            Event::Comes(2_000, drop_request(0, 8, 10).to(SESSION)),
            Event::SendsNak(2_000, nak(&[Loss::Single(7)])),
        ],
    )?;
    assert_eq!(rt;
        publisher.statistics(),
        Statistics {
            counts: Counts {
                arrived: 3,
                late: 1,
                ahead: 0,
                received: 1,
                bytes: 2,
                delivered: 0,
                given_up: 0,
                naks: 1,
                reported_lost: 1,
                full_window_acks: 0,
            },
            in_use: 3,
            available: 32,
            rtt: 100_000,
            variance: 50_000,
            correction: None,
        }
    );
    assert_event(&rt, &mut publisher, Event::Delivers(101_000, 1, b"cb"))?;
    let after = publisher.statistics();
    assert_eq!(rt; (after.counts.delivered, after.counts.given_up), (1, 3));
    assert_eq!(rt; (after.in_use, after.available), (0, 32));
    Ok(())
}

/// Returns a session of callers that use libsrt, with 32 places and the initial number 7.
fn libsrt_session(alloc: Global, mode: Mode) -> Result<Publisher, Fail> {
    session_with(alloc, 32, 7, mode, 1_000_000, Callers::Libsrt)
}

/// Passes this number of packets, from number 7 on, with this number of microseconds between them.
fn come(alloc: Global, publisher: &mut Publisher, packets: u32, apart: u32) -> Result<(), Fail> {
    for at in 0..packets {
        let bytes = media(at.saturating_add(7), 1, 0, b"a").bytes(alloc)?;
        let end = hear(publisher, bytes.as_slice(), at.saturating_mul(apart))?;
        assert_no_end(end)?;
    }
    Ok(())
}

fn assert_no_end(end: Option<PubEnd>) -> Result<(), Fail> {
    match end {
        None => Ok(()),
        Some(_) => Err(Fail::from("the session goes on")),
    }
}

/// Asserts the words of the first Full ACK of a session in buffer mode, 10 ms after its opening, if this many packets came.
fn assert_rates(
    rt: &(impl AllocGlobal + Abort),
    packets: u32,
    apart: u32,
    words: [u32; 7],
) -> Result<(), Fail> {
    let mut publisher = libsrt_session(rt.alloc(), Mode::Buffer)?;
    come(rt.alloc(), &mut publisher, packets, apart)?;
    assert_sent(
        rt,
        &mut publisher,
        10_000,
        [Some(ack(1, &words)), None, None],
    )
}

/// 17 packets, 100 microseconds apart: 10,000 per second.
#[test]
fn rates_of_17_packets(rt: HostRuntime) -> Result<(), Fail> {
    assert_rates(
        &rt,
        17,
        100,
        [24, 100_000, 50_000, 15, 10_000, 100_000, 14_560_000],
    )
}

/// Ten packets, and so nine intervals, are enough.
#[test]
fn rates_of_10_packets(rt: HostRuntime) -> Result<(), Fail> {
    assert_rates(
        &rt,
        10,
        100,
        [17, 100_000, 50_000, 22, 10_000, 100_000, 14_560_000],
    )
}

/// Nine packets are too few, and the minimum rate is reported.
#[test]
fn rates_of_9_packets(rt: HostRuntime) -> Result<(), Fail> {
    assert_rates(
        &rt,
        9,
        100,
        [16, 100_000, 50_000, 23, 1_000, 100_000, 1_456_000],
    )
}

/// Passes packets from number 7 on: the first at the opening, each further one this number of microseconds after the
/// previous one.
fn come_after(alloc: Global, publisher: &mut Publisher, intervals: &[u32]) -> Result<(), Fail> {
    come(alloc, publisher, 1, 0)?;
    let mut number = 7u32;
    let mut moment = 0u32;
    for interval in intervals {
        number = number.saturating_add(1);
        moment = moment.saturating_add(*interval);
        let bytes = media(number, 1, 0, b"a").bytes(alloc)?;
        let end = hear(publisher, bytes.as_slice(), moment)?;
        assert_no_end(end)?;
    }
    Ok(())
}

/// Asserts the words of the first Full ACK of a session in buffer mode, at this time after its opening, if packets came with
/// these intervals.
fn assert_rates_after(
    rt: &(impl AllocGlobal + Abort),
    intervals: &[u32],
    time: u32,
    words: [u32; 7],
) -> Result<(), Fail> {
    let mut publisher = libsrt_session(rt.alloc(), Mode::Buffer)?;
    come_after(rt.alloc(), &mut publisher, intervals)?;
    assert_sent(rt, &mut publisher, time, [Some(ack(1, &words)), None, None])
}

/// Two bursts of packets 100 microseconds apart, with a pause of 10 ms after each.
const BURSTS: [u32; 16] = [
    100, 100, 100, 100, 100, 100, 100, 10_000, 100, 100, 100, 100, 100, 100, 100, 10_000,
];

/// Fourteen of 16 intervals are 100 microseconds, 10,000 packets per second. The length of the pauses has no effect.
#[test]
fn rates_of_bursts(rt: HostRuntime) -> Result<(), Fail> {
    assert_rates_after(
        &rt,
        &BURSTS,
        30_000,
        [24, 100_000, 50_000, 15, 10_000, 100_000, 14_560_000],
    )
}

/// Eight intervals of 50 microseconds and eight of 400.
const AS_MANY_SHORT: [u32; 16] = [
    50, 400, 50, 400, 50, 400, 50, 400, 50, 400, 50, 400, 50, 400, 50, 400,
];

/// The ninth interval by length is 400 microseconds: 2500 packets per second.
#[test]
fn rates_of_as_many_short_intervals(rt: HostRuntime) -> Result<(), Fail> {
    assert_rates_after(
        &rt,
        &AS_MANY_SHORT,
        10_000,
        [24, 100_000, 50_000, 15, 2_500, 100_000, 3_640_000],
    )
}

/// Two long intervals, which are not among the last 16, and then nine of 50 microseconds among seven of 400.
const MORE_SHORT: [u32; 18] = [
    400, 400, 50, 400, 50, 400, 50, 400, 50, 400, 50, 400, 50, 400, 50, 400, 50, 50,
];

/// The ninth interval by length is 50 microseconds: 20,000 packets per second.
#[test]
fn rates_of_more_short_intervals(rt: HostRuntime) -> Result<(), Fail> {
    assert_rates_after(
        &rt,
        &MORE_SHORT,
        10_000,
        [26, 100_000, 50_000, 13, 20_000, 100_000, 29_120_000],
    )
}

/// 17 packets at once: the maximum rate is reported, and the capacity is at least as large.
#[test]
fn rates_of_packets_at_once(rt: HostRuntime) -> Result<(), Fail> {
    assert_rates(
        &rt,
        17,
        0,
        [24, 100_000, 50_000, 15, 1_000_000, 1_000_000, 1_456_000_000],
    )
}

/// In live mode the reported rates are 0. The first round trip, of 4 ms, replaces the initial values.
#[test]
fn first_round_trip(rt: HostRuntime) -> Result<(), Fail> {
    let mut publisher = libsrt_session(rt.alloc(), Mode::Live)?;
    come(rt.alloc(), &mut publisher, 17, 100)?;
    let reported = ack(1, &[24, 100_000, 50_000, 15, 0, 0, 0]);
    assert_sent(&rt, &mut publisher, 10_000, [Some(reported), None, None])?;
    assert_heard(&rt, &mut publisher, 14_000, ack_ack(1).to(SESSION), None)?;
    let seen = publisher.statistics();
    assert_eq!(rt; (seen.rtt, seen.variance), (4_000, 2_000));
    assert!(rt; publisher.has_undelivered());
    // The last packet arrived 1.6 ms after the opening.
    assert_eq!(rt; publisher.silent_for(OPENING + 10_000), 8_400);
    Ok(())
}

/// Number 9 waits after the gap of 7 and 8 until it is delivered. After that 8 is late, and 10 is dropped on request.
#[test]
fn what_is_left_to_deliver_in_live_mode(rt: HostRuntime) -> Result<(), Fail> {
    let mut publisher = session(rt.alloc(), 32, 7, Mode::Live, 100_000)?;
    assert!(rt; !publisher.has_undelivered());
    let behind_a_gap = Event::Comes(1_000, media(9, 3, 1_000, b"c"));
    assert_event(&rt, &mut publisher, behind_a_gap)?;
    assert!(rt; publisher.has_undelivered());
    assert_event(&rt, &mut publisher, Event::Delivers(101_000, 0, b"c"))?;
    assert!(rt; !publisher.has_undelivered());
    let late = Event::Comes(102_000, media_again(8, 2, 900, b"b"));
    assert_event(&rt, &mut publisher, late)?;
    let dropped = Event::Comes(102_000, drop_request(0, 10, 10).to(SESSION));
    assert_event(&rt, &mut publisher, dropped)?;
    assert!(rt; !publisher.has_undelivered());
    Ok(())
}

/// Number 8 can be delivered once 7 has arrived, and not before.
#[test]
fn what_is_left_to_deliver_in_buffer_mode(rt: HostRuntime) -> Result<(), Fail> {
    let mut publisher = session(rt.alloc(), 32, 7, Mode::Buffer, 0)?;
    hear_number(rt.alloc(), &mut publisher, 8)?;
    assert!(rt; !publisher.has_undelivered());
    hear_number(rt.alloc(), &mut publisher, 7)?;
    assert!(rt; publisher.has_undelivered());
    assert_event(&rt, &mut publisher, Event::Delivers(10_000, 1, b"a"))?;
    assert!(rt; publisher.has_undelivered());
    assert_event(&rt, &mut publisher, Event::Delivers(10_000, 1, b"a"))?;
    assert!(rt; !publisher.has_undelivered());
    Ok(())
}

/// An event of a session whose sender's clock is followed. Times are microseconds since the opening.
#[derive(Clone, Copy)]
enum ClockEvent {
    /// The data packet with this number arrives at a time that is its timestamp too, and an ACK is sent.
    Acknowledges(u8, u32),
    /// An ACKACK with this number and this timestamp arrives.
    Confirms(u32, u32, u32),
}

/// Asserts that an ACK is sent.
fn assert_acknowledged(rt: &(impl AllocGlobal + Abort), publisher: &mut Publisher, time: u32) {
    let mut ack = EncodedPacket::new();
    let mut nak = EncodedPacket::new();
    let mut keep_alive = EncodedPacket::new();
    let now = OPENING + u64::from(time);
    let sent = publisher.transmit(now, &mut ack, &mut nak, &mut keep_alive);
    assert!(rt; sent.ack);
}

fn assert_clock_event(
    rt: &(impl AllocGlobal + Abort),
    publisher: &mut Publisher,
    event: ClockEvent,
) -> Result<(), Fail> {
    match event {
        ClockEvent::Acknowledges(number, time) => {
            let sample = media(u32::from(number), 1, time, b"a");
            assert_heard(rt, publisher, time, sample, None)?;
            assert_acknowledged(rt, publisher, time);
            Ok(())
        }
        ClockEvent::Confirms(number, time, stamp) => {
            let sample = ack_ack(number).stamp(stamp).to(SESSION);
            assert_heard(rt, publisher, time, sample, None)
        }
    }
}

/// Passes two seconds of ACKACKs to a session, and asserts its correction. Their timestamps are first 750, then 1,700
/// microseconds late; round trips are 8 and 10 ms.
fn assert_followed(
    rt: &(impl AllocGlobal + Abort),
    publisher: &mut Publisher,
    wanted: [Option<i64>; 2],
) -> Result<(), Fail> {
    let events = [
        ClockEvent::Acknowledges(0, 1_000_000),
        ClockEvent::Confirms(1, 1_010_000, 0x000f_53d4),
        ClockEvent::Acknowledges(1, 1_500_000),
        ClockEvent::Confirms(2, 1_508_000, 0x0016_f012),
        ClockEvent::Acknowledges(2, 1_980_000),
        ClockEvent::Acknowledges(3, 2_000_999),
        ClockEvent::Confirms(4, 2_009_999, 2_004_599),
        ClockEvent::Confirms(3, 2_010_000, 5),
        ClockEvent::Acknowledges(4, 2_100_000),
        ClockEvent::Confirms(5, 2_110_000, 2_103_750),
        ClockEvent::Acknowledges(5, 3_100_000),
        // confirms nothing
        ClockEvent::Confirms(5, 3_110_000, 1),
    ];
    for event in events {
        assert_clock_event(rt, publisher, event)?;
    }
    assert_eq!(rt; publisher.statistics().correction, wanted[0]);
    assert_clock_event(
        rt,
        publisher,
        ClockEvent::Confirms(6, 3_110_000, 0x002f_5a44),
    )?;
    assert_eq!(rt; publisher.statistics().correction, wanted[1]);
    Ok(())
}

/// Skips the packets that are due.
fn skip_due(publisher: &mut Publisher, time: u32) {
    for _ in 0..6u8 {
        publisher.note_delivered(OPENING + u64::from(time), 1);
    }
}

/// A payload with the timestamp of five seconds arrives at 3.3 s: asserts that it isn't due at the one moment, but at the other.
fn assert_due(
    rt: &(impl AllocGlobal + Abort),
    publisher: &mut Publisher,
    early: u32,
    due: u32,
) -> Result<(), Fail> {
    skip_due(publisher, 3_300_000);
    let events = [
        Event::Comes(3_300_000, media(6, 1, 5_000_000, b"b")),
        Event::Delivers(early, 1, b""),
        Event::Delivers(due, 1, b"b"),
    ];
    assert_events(rt, publisher, &events)
}

#[test]
fn a_live_session_follows_its_senders_clock(rt: HostRuntime) -> Result<(), Fail> {
    let mut publisher = session_with(rt.alloc(), 32, 0, Mode::Live, 120_000, Callers::Libsrt)?;
    assert_eq!(rt; publisher.statistics().correction, Some(0));
    assert_followed(&rt, &mut publisher, [Some(0), Some(950)])?;
    assert_due(&rt, &mut publisher, 5_120_949, 5_120_950)
}

#[test]
fn the_clock_of_a_caller_of_the_draft_is_not_followed(rt: HostRuntime) -> Result<(), Fail> {
    let mut publisher = session(rt.alloc(), 32, 0, Mode::Live, 120_000)?;
    assert_followed(&rt, &mut publisher, [None, None])?;
    assert_due(&rt, &mut publisher, 5_119_999, 5_120_000)
}

#[test]
fn the_clock_is_not_followed_in_buffer_mode(rt: HostRuntime) -> Result<(), Fail> {
    let mut publisher = session_with(rt.alloc(), 32, 0, Mode::Buffer, 0, Callers::Libsrt)?;
    assert_followed(&rt, &mut publisher, [None, None])
}
