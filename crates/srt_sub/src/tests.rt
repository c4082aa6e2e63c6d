//! Computed examples of a session, as the bytes that it receives and sends.

ghost use Rattle.std.specs.Prelude.{◌^◌, ◌<◌};

mod holding;
mod payloads;
mod turns;

use crate::{Counts, Opening, Resending, Sendings, Statistics, Subscriber, Took};
use arrayvec::ArrayVec;
use srt_packet::{EncodedPacket, decode};
use srt_samples::{
    Difference, Loss, Sample, ack, ack_ack, data_packet, drop_request, first_difference,
    keep_alive, light_ack, nak, shutdown,
};
use srt_types::{MOMENT_END, Mode, Seq31};
use std::alloc::Global;
use std::test::Fail;

/// Socket ID of the session: the destination of received packets.
const SESSION: u32 = 0x10_0000;

/// Socket ID of the caller: the destination of sent packets.
const CALLER: u32 = 2;

/// Loss list of the first packet of most sessions.
const LOST: [Loss; 1] = [Loss::Single(9)];

/// Returns a data packet with this sequence number, message number and timestamp in microseconds.
fn media<'a>(number: u32, message: u32, stamp: u32) -> Sample<'a> {
    data_packet(number)
        .flags(0xe000_0000 | message)
        .stamp(stamp)
        .payload(b"a")
}

/// Returns the same packet with the retransmission flag.
fn media_again<'a>(number: u32, message: u32, stamp: u32) -> Sample<'a> {
    media(number, message, stamp).flags(0xe400_0000 | message)
}

/// An event and its expected result. Datagrams that arrive have the session's socket ID as their destination, and packets
/// that are sent have the caller's.
#[derive(Clone, Copy)]
enum Step<'a> {
    /// Opened in live mode, with this initial number and this delay.
    Start(u32, u32),
    /// Opened in buffer mode, with this initial number.
    StartBuffer(u32),
    /// Opened with this rule for resending all, the initial number 100 and a delay of 120 ms. The caller was heard now.
    StartRule(Mode, Resending),
    /// Payloads of these sizes are queued. Their bytes are `61`.
    Feed(&'a [usize]),
    /// A datagram arrives and isn't answered.
    Hear(Sample<'a>),
    /// A datagram arrives and is answered by this packet.
    Answer(Sample<'a>, Sample<'a>),
    /// A datagram arrives and ends the session.
    Close(Sample<'a>),
    /// The next packet is this one.
    Send(Sample<'a>),
    /// The next packet is this one, and no other remains.
    SendLast(Sample<'a>),
    /// No packet remains.
    SendNothing,
    Expire,
    /// The number of payloads that can still be queued.
    Room(u32),
    /// This many packets remain, and are sent.
    Drain(u32),
}

fn number(word: u32) -> Result<Seq31, Fail> {
    match Seq31::new(word) {
        Some(number) => Ok(number),
        None => Err(Fail::from("a word with its top bit set")),
    }
}

/// Returns the parameters of a session in live mode that is opened at this time with this initial number. The delay is
/// 120 ms, the flow window 8192.
fn opening(now: u64, initial: u32) -> Result<Opening, Fail> {
    Ok(Opening {
        now,
        initial: number(initial)?,
        caller: CALLER,
        delay: 120_000,
        mode: Mode::Live,
        mtu: 1500,
        window: 8192,
        resend_percent: None,
        resending: Resending::AtEachTimeout,
    })
}

/// Returns a payload of this many letters, at most 1456.
fn payload(bytes: usize) -> ArrayVec<u8, 1456> {
    let mut payload = ArrayVec::new();
    for _ in 0..bytes {
        let _ = payload.try_push(0x61);
    }
    payload
}

/// A session, the time at which a packet from the caller was last received, the packet that its calls write, and how the
/// last written packet differs from the expected one.
#[derive(Drop)]
struct Trial {
    alloc: Global,
    session: Subscriber,
    heard: u64,
    place: EncodedPacket,
    difference: Option<Difference>,
}

/// Whether the packet that was written is this one to the caller.
fn sends(trial: &mut Trial, sample: Sample<'_>) -> Result<bool, Fail> {
    let bytes = sample.to(CALLER).bytes(trial.alloc)?;
    trial.difference = first_difference(trial.place.bytes(), &bytes);
    Ok(trial.difference.is_none())
}

/// Returns a session with 128 places before its first start.
fn unstarted(alloc: Global) -> Result<Trial, Fail> {
    Ok(Trial {
        alloc,
        session: Subscriber::open(alloc, 128)?,
        heard: 0,
        place: EncodedPacket::new(),
        difference: None,
    })
}

/// Passes a datagram to the session.
fn takes(trial: &mut Trial, sample: Sample<'_>, now: u64) -> Result<Took, Fail>
    requires { now < 2 ^ 62 }
{
    let bytes = sample.to(SESSION).bytes(trial.alloc)?;
    let Ok(packet) = decode(&bytes) else {
        return Err(Fail::from("a packet"));
    };
    trial.heard = now;
    Ok(trial.session.datagram(&packet, now, &mut trial.place))
}

/// Passes a datagram to the session. Returns whether it isn't answered and doesn't end the session.
fn hears(trial: &mut Trial, sample: Sample<'_>, now: u64) -> Result<bool, Fail>
    requires { now < 2 ^ 62 }
{
    Ok(matches!(takes(trial, sample, now)?, Took::Nothing))
}

/// Writes the next packet of an event's end.
fn emits(trial: &mut Trial, now: u64) -> bool
    requires { now < 2 ^ 62 }
{
    let recent = now.saturating_sub(trial.heard) < 1_000_000;
    trial.session.emit(now, recent, &mut trial.place)
}

/// Whether the next packet of an event's end is this one.
fn emits_this(trial: &mut Trial, sample: Sample<'_>, now: u64) -> Result<bool, Fail>
    requires { now < 2 ^ 62 }
{
    if emits(trial, now) {
        sends(trial, sample)
    } else {
        Ok(false)
    }
}

fn drained(trial: &mut Trial, now: u64) -> u32
    requires { now < 2 ^ 62 }
{
    for count in 0..100 {
        if !emits(trial, now) {
            return count;
        }
    }
    100
}

/// Queues payloads of these sizes. Returns whether each was queued.
fn feeds(trial: &mut Trial, sizes: &[usize], now: u64) -> bool
    requires { now < 2 ^ 62 }
{
    for bytes in sizes {
        if !trial.session.feed(payload(*bytes).as_slice(), now) {
            return false;
        }
    }
    true
}

fn agrees(trial: &mut Trial, now: u64, step: Step<'_>) -> Result<bool, Fail>
    requires { now < 2 ^ 62 }
{
    match step {
        Step::Start(initial, delay) => {
            let live = opening(now, initial)?;
            trial.session.start(Opening { delay, ..live });
            Ok(true)
        }
        Step::StartBuffer(initial) => {
            let live = opening(now, initial)?;
            trial.session.start(Opening {
                mode: Mode::Buffer,
                delay: 0,
                ..live
            });
            Ok(true)
        }
        Step::StartRule(mode, resending) => {
            trial.heard = now;
            let live = opening(now, 100)?;
            trial.session.start(Opening {
                mode,
                resending,
                ..live
            });
            Ok(true)
        }
        Step::Feed(sizes) => Ok(feeds(trial, sizes, now)),
        Step::Hear(sample) => hears(trial, sample, now),
        Step::Answer(sample, answer) => match takes(trial, sample, now)? {
            Took::Answer => sends(trial, answer),
            _ => Ok(false),
        },
        Step::Close(sample) => Ok(matches!(takes(trial, sample, now)?, Took::Ended)),
        Step::Send(sample) => emits_this(trial, sample, now),
        Step::SendLast(sample) => Ok(emits_this(trial, sample, now)? && !emits(trial, now)),
        Step::SendNothing => Ok(!emits(trial, now)),
        Step::Expire => {
            trial.session.expire(now);
            Ok(true)
        }
        Step::Room(room) => Ok(trial.session.room() == room),
        Step::Drain(count) => Ok(drained(trial, now) == count),
    }
}

/// The first test vector (a time and a step) for which the session has another result: its index, and how a packet that
/// was sent differs from the expected one.
type Other = Option<(usize, Option<Difference>)>;

fn other_in(trial: &mut Trial, rows: &[(u64, Step<'_>)]) -> Result<Other, Fail> {
    for at in 0..rows.len() {
        let (now, step) = rows[at];
        if now >= MOMENT_END || !agrees(trial, now, step)? {
            return Ok(Some((at, trial.difference)));
        }
    }
    Ok(None)
}

/// Returns the first failing test vector for a session of width 128.
fn other(alloc: Global, rows: &[(u64, Step<'_>)]) -> Result<Other, Fail> {
    let mut trial = unstarted(alloc)?;
    other_in(&mut trial, rows)
}

#[test]
fn a_packet_again_and_gone(rt: HostRuntime) -> Result<(), Fail> {
    let rows = [
        (4_000_000, Step::Start(9, 120_000)),
        (5_000_000, Step::Feed(&[1])),
        (5_000_000, Step::SendLast(media(9, 1, 1_000_000))),
        (6_000_000, Step::Hear(nak(&LOST))),
        (6_000_000, Step::SendLast(media_again(9, 1, 1_000_000))),
        (6_000_001, Step::Hear(nak(&LOST))),
        (
            6_000_001,
            Step::SendLast(drop_request(1, 9, 9).stamp(2_000_001)),
        ),
        (6_000_002, Step::SendNothing),
        // With a delay of 2 s.
        (4_000_000, Step::Start(9, 2_000_000)),
        (5_000_000, Step::Feed(&[1])),
        (7_500_000, Step::Expire),
        (7_500_000, Step::Room(127)),
        (7_500_001, Step::Expire),
        (7_500_001, Step::Expire),
        (7_500_001, Step::Room(128)),
        (7_500_001, Step::Close(shutdown())),
        // In buffer mode no packet is ever too late, and sequence numbers wrap.
        (4_000_000, Step::StartBuffer(0x7fff_ffff)),
        (5_000_000, Step::Feed(&[1, 1456])),
        (5_000_000, Step::Drain(2)),
        (99_000_000, Step::Hear(nak(&[Loss::Range(0x7fff_ffff, 5)]))),
        (
            99_000_000,
            Step::Send(media_again(0x7fff_ffff, 1, 1_000_000)),
        ),
        (99_000_000, Step::Drain(1)),
    ];
    assert_eq!(rt; other(rt.alloc(), &rows)?, None);
    Ok(())
}

#[test]
fn acknowledgements(rt: HostRuntime) -> Result<(), Fail> {
    let rows = [
        (4_000_000, Step::Start(9, 120_000)),
        (5_000_000, Step::Feed(&[1])),
        (5_000_000, Step::Drain(1)),
        (
            5_020_000,
            Step::Answer(
                ack(1, &[10, 20_000, 10_000, 16, 0, 0, 0]),
                ack_ack(1).stamp(1_020_000),
            ),
        ),
        // A number that no ACK may have: it is answered, and nothing changes.
        (
            5_020_000,
            Step::Answer(ack(2, &[12, 0, 0, 0, 0, 0, 0]), ack_ack(2).stamp(1_020_000)),
        ),
        (
            5_020_000,
            Step::Answer(ack(3, &[0x8000_000a]), ack_ack(3).stamp(1_020_000)),
        ),
        (5_020_000, Step::SendNothing),
        (5_030_000, Step::Feed(&[1])),
        (5_030_000, Step::SendLast(media(10, 2, 1_030_000))),
        (5_109_999, Step::SendNothing),
        (5_110_000, Step::Send(media_again(10, 2, 1_030_000))),
        // An ACK of 16 bytes: a round-trip time of 0, and a flow window of 0.
        (5_110_000, Step::Hear(ack(0, &[10, 0, 0, 0]))),
        (5_120_000, Step::Feed(&[1])),
        (5_129_999, Step::SendNothing),
        (5_130_000, Step::SendLast(media_again(10, 2, 1_030_000))),
        // An ACK of 13 bytes has a round-trip time, and one of 8 doesn't.
        (
            5_130_000,
            Step::Hear(ack(0, &[10, 10_000, 0]).payload(&[0])),
        ),
        (5_130_000, Step::Hear(ack(0, &[10, 0xffff_ffff]))),
        (5_159_999, Step::SendNothing),
        (5_160_000, Step::Send(media_again(10, 2, 1_030_000))),
        (
            5_160_000,
            Step::Hear(ack(0, &[10, 0xffff_ffff, 0xffff_ffff, 2])),
        ),
        (5_160_000, Step::SendLast(media(11, 3, 1_120_000))),
    ];
    assert_eq!(rt; other(rt.alloc(), &rows)?, None);
    Ok(())
}

#[test]
fn silence(rt: HostRuntime) -> Result<(), Fail> {
    let rows = [
        (1_000_000, Step::Start(9, 120_000)),
        (1_000_000, Step::Feed(&[1])),
        (1_000_000, Step::Drain(1)),
        (1_319_999, Step::SendNothing),
        (1_320_000, Step::SendLast(media_again(9, 1, 0))),
        (1_000_000, Step::Start(9, 120_000)),
        (1_999_999, Step::SendNothing),
        (2_000_000, Step::SendLast(keep_alive().stamp(1_000_000))),
    ];
    assert_eq!(rt; other(rt.alloc(), &rows)?, None);
    Ok(())
}

#[test]
fn hostile_loss_lists(rt: HostRuntime) -> Result<(), Fail> {
    let rows = [
        (4_000_000, Step::Start(9, 120_000)),
        (5_000_000, Step::Feed(&[1])),
        (5_000_000, Step::Drain(1)),
        (5_100_000, Step::Hear(nak(&[Loss::Range(9, 0x4000_0009)]))),
        (5_100_000, Step::SendNothing),
        (5_100_000, Step::Hear(nak(&LOST).payload(&[0]))),
        (5_100_000, Step::SendNothing),
        (5_100_000, Step::Hear(nak(&[Loss::Range(9, 0x4000_0008)]))),
        (5_100_000, Step::SendLast(media_again(9, 1, 1_000_000))),
        // The second range is processed too.
        (
            5_100_000,
            Step::Hear(nak(&[Loss::Single(8), Loss::Single(10), Loss::Single(9)])),
        ),
        (5_100_000, Step::Drain(1)),
        // Kinds that change nothing for a subscriber.
        (5_100_000, Step::Hear(ack_ack(1).payload(&[0, 0, 0, 9]))),
        (
            5_100_000,
            Step::Hear(data_packet(9).flags(0xe000_0001).payload(b"a")),
        ),
        (5_100_000, Step::SendNothing),
    ];
    assert_eq!(rt; other(rt.alloc(), &rows)?, None);
    Ok(())
}

#[test]
fn many_packets(rt: HostRuntime) -> Result<(), Fail> {
    let mut trial = unstarted(rt.alloc())?;
    let live = opening(1_000_000, 9)?;
    trial.session.start(Opening {
        mtu: 76,
        window: 100,
        ..live
    });
    // The MTU of 76 bytes includes all headers.
    assert!(rt; !trial.session.feed(payload(33).as_slice(), 1_000_000));
    for _ in 0..70 {
        assert!(rt; trial.session.feed(payload(32).as_slice(), 1_000_000));
    }
    assert_eq!(rt; trial.session.room(), 58);
    assert_eq!(rt; drained(&mut trial, 1_000_000), 64);
    assert_eq!(rt; drained(&mut trial, 1_000_000), 6);
    assert_eq!(rt; drained(&mut trial, 1_000_000), 0);
    let rows = [
        (1_000_001, Step::Hear(nak(&[Loss::Range(9, 96)]))),
        (1_000_001, Step::Feed(&[32])),
        (1_000_001, Step::Drain(64)),
        // Lost packets are sent before new ones.
        (1_000_001, Step::Drain(7)),
        (1_000_001, Step::Drain(0)),
    ];
    assert_eq!(rt; other_in(&mut trial, &rows)?, None);
    for _ in 0..57 {
        assert!(rt; trial.session.feed(payload(32).as_slice(), 1_000_001));
    }
    assert!(rt; !trial.session.feed(payload(32).as_slice(), 1_000_001));
    Ok(())
}

/// Of two packets, 9 is sent again and acknowledged, and 10 expires. An invalid loss list isn't counted. The caller
/// sends two data packets, the second encrypted.
#[test]
fn what_a_session_counts(rt: HostRuntime) -> Result<(), Fail> {
    let rows = [
        (4_000_000, Step::Start(9, 120_000)),
        (5_000_000, Step::Feed(&[1, 3])),
        (5_000_000, Step::Drain(2)),
        (5_100_000, Step::Hear(nak(&LOST))),
        (5_100_000, Step::Hear(nak(&LOST).payload(&[0]))),
        (5_100_000, Step::Drain(1)),
        (5_100_000, Step::Hear(light_ack(10))),
        (
            5_100_000,
            Step::Hear(data_packet(9).flags(0xe000_0003).stamp(1_000).payload(b"a")),
        ),
        (
            5_100_000,
            Step::Hear(
                data_packet(10)
                    .flags(0xe800_0004)
                    .stamp(1_000)
                    .payload(b"a"),
            ),
        ),
    ];
    let mut trial = unstarted(rt.alloc())?;
    assert_eq!(rt; other_in(&mut trial, &rows)?, None);
    assert_eq!(rt;
        trial.session.statistics(),
        Statistics {
            counts: Counts {
                queued: 2,
                bytes: 4,
                naks: 1,
                given_up: 0,
                misdirected: 2,
            },
            sendings: Sendings {
                fresh: 2,
                resent: 1
            },
            room: 127,
            in_flight: 1,
            flow_window: 8192,
            rtt: 100_000,
            variance: 50_000,
        }
    );
    trial.session.expire(6_000_001);
    let after = trial.session.statistics();
    assert_eq!(rt;
        (after.counts.given_up, after.room, after.in_flight),
        (1, 128, 0)
    );
    Ok(())
}

/// Returns a session in buffer mode that was opened at 0 with the initial number 5, and in which each new packet adds
/// credit for half a resend.
fn limited(alloc: Global) -> Result<Trial, Fail> {
    let mut trial = unstarted(alloc)?;
    let live = opening(0, 5)?;
    trial.session.start(Opening {
        mode: Mode::Buffer,
        delay: 0,
        resend_percent: Some(50),
        ..live
    });
    Ok(trial)
}

/// Feeds this many payloads. Returns the number of packets that the event then sends.
fn fed_and_drained(trial: &mut Trial, payloads: u32, now: u64) -> u32
    requires { now < 2 ^ 62 }
{
    for _ in 0..payloads {
        let _ = trial.session.feed(b"a", now);
    }
    drained(trial, now)
}

/// A loss list of all numbers from 5 to 74.
const ALL_70: [Loss; 1] = [Loss::Range(5, 74)];

/// Starting from 6400 hundredths, each new packet adds 50 and each resend costs 100.
#[test]
fn limited_resends(rt: HostRuntime) -> Result<(), Fail> {
    let mut trial = limited(rt.alloc())?;
    assert!(rt; trial.session.is_all_acknowledged());
    assert_eq!(rt; fed_and_drained(&mut trial, 70, 1_000), 64);
    assert_eq!(rt; drained(&mut trial, 2_000), 6);
    assert!(rt; !trial.session.is_all_acknowledged());
    assert!(rt; hears(&mut trial, nak(&ALL_70), 3_000)?);
    assert_eq!(rt; drained(&mut trial, 3_000), 64);
    assert_eq!(rt; drained(&mut trial, 4_000), 6);
    assert!(rt; hears(&mut trial, nak(&ALL_70), 5_000)?);
    assert_eq!(rt; drained(&mut trial, 5_000), 29);
    Ok(())
}

/// Without credit, lost packets stay lost until new ones add some, in the next event, or until 20 ms have passed.
#[test]
fn spent_credit(rt: HostRuntime) -> Result<(), Fail> {
    let mut trial = limited(rt.alloc())?;
    assert_eq!(rt; fed_and_drained(&mut trial, 70, 1_000), 64);
    assert_eq!(rt; drained(&mut trial, 2_000), 6);
    assert!(rt; hears(&mut trial, nak(&ALL_70), 3_000)?);
    assert_eq!(rt; drained(&mut trial, 3_000), 64);
    assert!(rt; hears(&mut trial, nak(&ALL_70), 4_000)?);
    assert_eq!(rt; drained(&mut trial, 4_000), 35);
    assert_eq!(rt; drained(&mut trial, 6_000), 0);
    assert_eq!(rt; fed_and_drained(&mut trial, 2, 7_000), 2);
    assert_eq!(rt; drained(&mut trial, 8_000), 1);
    assert_eq!(rt; drained(&mut trial, 27_999), 0);
    assert_eq!(rt; drained(&mut trial, 28_000), 1);
    assert_eq!(rt; drained(&mut trial, 28_001), 0);
    let sendings = trial.session.statistics().sendings;
    assert_eq!(rt; (sendings.fresh, sendings.resent), (72, 101));
    // All numbers below 77 are acknowledged.
    assert!(rt; hears(&mut trial, light_ack(77), 29_000)?);
    assert!(rt; trial.session.is_all_acknowledged());
    Ok(())
}

/// Returns an ACK without a number of its own, which isn't answered. With a round-trip time of 1 ms and a variance of
/// 0.5 ms the timeout is 23 ms.
fn small_ack<'a>(words: &'a [u32; 4]) -> Sample<'a> {
    ack(0, words)
}

/// Number 100 is acknowledged, and then 101 to 103 are sent at 1,100,000.
#[test]
fn all_again_once(rt: HostRuntime) -> Result<(), Fail> {
    let rows = [
        (1_000_000, Step::StartRule(Mode::Live, Resending::Once)),
        (1_050_000, Step::Feed(&[1])),
        (1_050_000, Step::Drain(1)),
        (1_060_000, Step::Hear(small_ack(&[101, 1_000, 500, 8192]))),
        (1_060_000, Step::Drain(0)),
        (1_100_000, Step::Feed(&[1, 1, 1])),
        (1_100_000, Step::Drain(3)),
        (1_159_999, Step::SendNothing),
        // Half the delay after the packets.
        (1_160_000, Step::Send(media_again(101, 2, 100_000))),
        (1_160_000, Step::Send(media_again(102, 3, 100_000))),
        (1_160_000, Step::SendLast(media_again(103, 4, 100_000))),
        // Only once: neither later nor after KEEPALIVEs and an ACK that acknowledges nothing more.
        (1_220_000, Step::SendNothing),
        (1_300_000, Step::Hear(keep_alive())),
        (1_300_000, Step::SendNothing),
        (1_400_000, Step::Hear(light_ack(101))),
        (1_400_000, Step::SendNothing),
        (1_500_000, Step::Hear(keep_alive())),
        (1_599_999, Step::SendNothing),
        (1_600_000, Step::Hear(light_ack(102))),
        (1_600_000, Step::SendNothing),
        (1_659_999, Step::SendNothing),
        (1_660_000, Step::Send(media_again(102, 3, 100_000))),
        (1_660_000, Step::SendLast(media_again(103, 4, 100_000))),
        (1_670_000, Step::Hear(nak(&[Loss::Range(102, 103)]))),
        (1_670_000, Step::Drain(2)),
        (1_700_000, Step::Feed(&[1])),
        (1_700_000, Step::SendLast(media(104, 5, 700_000))),
        (1_899_999, Step::SendNothing),
        // A round-trip time of 100 ms and a variance of 10 ms: the timeout is 160 ms, and longer than half the delay.
        (
            1_900_000,
            Step::Hear(small_ack(&[104, 100_000, 10_000, 8192])),
        ),
        (1_900_000, Step::SendNothing),
        (2_059_999, Step::SendNothing),
        (2_060_000, Step::SendLast(media_again(104, 5, 700_000))),
    ];
    assert_eq!(rt; other(rt.alloc(), &rows)?, None);
    Ok(())
}

#[test]
fn not_again_to_a_silent_caller(rt: HostRuntime) -> Result<(), Fail> {
    let rows = [
        (1_000_000, Step::StartRule(Mode::Live, Resending::Once)),
        (4_900_000, Step::Feed(&[1, 1, 1, 1, 1, 1, 1])),
        (4_900_000, Step::Drain(7)),
        (4_950_000, Step::Hear(small_ack(&[106, 1_000, 500, 8192]))),
        (4_950_000, Step::SendNothing),
        (5_000_000, Step::Hear(light_ack(107))),
        (5_000_000, Step::SendNothing),
        (5_939_999, Step::Feed(&[1])),
        (5_939_999, Step::Drain(1)),
        (5_940_000, Step::Feed(&[1])),
        (5_940_000, Step::Drain(1)),
        (5_999_999, Step::SendNothing),
        (6_000_000, Step::SendNothing),
        (6_000_001, Step::Hear(keep_alive())),
        (6_000_001, Step::Send(media_again(107, 8, 4_939_999))),
        (6_000_001, Step::SendLast(media_again(108, 9, 4_940_000))),
    ];
    assert_eq!(rt; other(rt.alloc(), &rows)?, None);
    Ok(())
}

#[test]
fn all_again_backing_off(rt: HostRuntime) -> Result<(), Fail> {
    let rows = [
        (
            1_000_000,
            Step::StartRule(Mode::Live, Resending::BackingOff),
        ),
        (1_050_000, Step::Feed(&[1])),
        (1_050_000, Step::Drain(1)),
        (1_060_000, Step::Hear(small_ack(&[101, 1_000, 500, 8192]))),
        (1_060_000, Step::Drain(0)),
        (1_100_000, Step::Feed(&[1, 1])),
        (1_100_000, Step::Drain(2)),
        (1_122_999, Step::SendNothing),
        (1_123_000, Step::Send(media_again(101, 2, 100_000))),
        (1_123_000, Step::SendLast(media_again(102, 3, 100_000))),
        (1_168_999, Step::SendNothing),
        (1_169_000, Step::Drain(2)),
        (1_170_000, Step::Feed(&[1])),
        (1_170_000, Step::SendLast(media(103, 4, 170_000))),
        (1_261_999, Step::SendNothing),
        (1_262_000, Step::Send(media_again(101, 2, 100_000))),
        (1_262_000, Step::Drain(2)),
        (1_262_001, Step::Hear(light_ack(102))),
        (1_262_001, Step::SendNothing),
        (1_285_000, Step::SendNothing),
        (1_285_001, Step::Send(media_again(102, 3, 100_000))),
        (1_285_001, Step::SendLast(media_again(103, 4, 170_000))),
    ];
    assert_eq!(rt; other(rt.alloc(), &rows)?, None);
    Ok(())
}

/// The moments at which a packet is sent again, with the last one before each: 23 ms after it was sent, then each time after
/// twice as long.
const SIX_TIMES: [(u64, u64); 6] = [
    (1_122_999, 1_123_000),
    (1_168_999, 1_169_000),
    (1_260_999, 1_261_000),
    (1_444_999, 1_445_000),
    (1_812_999, 1_813_000),
    (2_548_999, 2_549_000),
];

/// One packet in buffer mode, sent again after 23 ms, then each time after twice as long, but at most 64 times as long.
/// The caller is heard each time.
#[test]
fn backing_off_six_times(rt: HostRuntime) -> Result<(), Fail> {
    let mut trial = unstarted(rt.alloc())?;
    let rows = [
        (
            1_000_000,
            Step::StartRule(Mode::Buffer, Resending::BackingOff),
        ),
        (1_050_000, Step::Feed(&[1])),
        (1_050_000, Step::Drain(1)),
        (1_060_000, Step::Hear(small_ack(&[101, 1_000, 500, 8192]))),
        (1_100_000, Step::Feed(&[1])),
        (1_100_000, Step::Drain(1)),
    ];
    assert_eq!(rt; other_in(&mut trial, &rows)?, None);
    for (before, time) in SIX_TIMES {
        let rows = [
            (before, Step::Hear(keep_alive())),
            (before, Step::SendNothing),
            (time, Step::SendLast(media_again(101, 2, 100_000))),
        ];
        assert_eq!(rt; other_in(&mut trial, &rows)?, None, "{time}");
    }
    let rows = [
        (4_020_999, Step::Hear(keep_alive())),
        (4_020_999, Step::SendLast(keep_alive().stamp(3_020_999))),
        (4_021_000, Step::SendLast(media_again(101, 2, 100_000))),
        (5_492_999, Step::Hear(keep_alive())),
        (5_492_999, Step::SendLast(keep_alive().stamp(4_492_999))),
        (5_493_000, Step::SendLast(media_again(101, 2, 100_000))),
    ];
    assert_eq!(rt; other_in(&mut trial, &rows)?, None);
    Ok(())
}

/// In buffer mode, with the round-trip time of the start: 320 ms, and then 640 ms, but not in silence.
#[test]
fn backing_off_in_silence(rt: HostRuntime) -> Result<(), Fail> {
    let rows = [
        (
            1_000_000,
            Step::StartRule(Mode::Buffer, Resending::BackingOff),
        ),
        (1_000_000, Step::Feed(&[1])),
        (1_000_000, Step::Drain(1)),
        (1_319_999, Step::SendNothing),
        (1_320_000, Step::SendLast(media_again(100, 1, 0))),
        (2_000_000, Step::SendNothing),
        (2_000_001, Step::Hear(ack_ack(1))),
        (2_000_001, Step::SendLast(media_again(100, 1, 0))),
    ];
    assert_eq!(rt; other(rt.alloc(), &rows)?, None);
    Ok(())
}
