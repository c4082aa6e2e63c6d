//! The datagrams that a route receives, and its replies. The words were derived from the draft by hand; a route
//! doesn't check a conclusion's cookie, so it is arbitrary here.

ghost use Rattle.std.specs.Prelude.{◌<◌, ◌^◌, IfOk};
ghost use Rattle.srt_types.specs.Items.{input_of, moment_of};

use crate::tests::peer;
use srt_samples::{
    Acknowledged, Block, Caller, HSREQ, HSRSP, Sample, conclusion, conclusion_answer, data_packet,
    full_ack,
};
use srt_types::{Item, MOMENT_END};
use std::alloc::Global;
use std::test::Fail;

/// A datagram that arrives: the port of its sender, and its arrival time in microseconds.
#[derive(Clone, Copy)]
pub struct Coming<'a> {
    pub port: u16,
    pub moment: u64,
    pub sample: Sample<'a>,
}

impl Coming<'_> {
    pub fn item(&self, alloc: Global) -> Result<Item, Fail>
        ensures timely { IfOk result (λ item. moment_of (input_of item) < 2 ^ 62) }
    {
        let bytes = self.sample.bytes(alloc)?;
        let moment = self.moment;
        if bytes.len() < 16 || moment >= MOMENT_END {
            return Err(Fail::from("a header and an early moment"));
        }
        let mut head = [0u8; 16];
        head.copy_from_slice(&bytes[..16]);
        Ok(Item::Datagram {
            peer: peer(self.port),
            moment,
            head,
            body: Vec::from_slice(alloc, &bytes[16..])?,
        })
    }
}

/// A reply, and the port that it is sent to.
#[derive(Clone, Copy)]
pub struct Expected<'a> {
    pub port: u16,
    pub sample: Sample<'a>,
}

/// The ports of the publisher and of the subscriber.
const PUBLISHER: u16 = 5000;

const SUBSCRIBER: u16 = 5001;

/// The socket IDs of the callers, and the sequence numbers of their first data packets.
const PUBLISHER_ID: u32 = 1;

const SUBSCRIBER_ID: u32 = 2;

const PUBLISHER_INITIAL: u32 = 5;

const SUBSCRIBER_INITIAL: u32 = 9;

/// Socket IDs of their sessions, in the first slot and in the second.
const PUBLISHER_SESSION: u32 = 0x10_0000;

const SUBSCRIBER_SESSION: u32 = 0x10_0001;

const PUBLISHES: [Block<'static>; 2] = [HSREQ, Block::StreamId("#!::r=studio,m=publish")];

const REQUESTS: [Block<'static>; 2] = [HSREQ, Block::StreamId("studio")];

/// The block of an answer.
const RESPONSE: [Block<'static>; 1] = [HSRSP];

/// Returns a conclusion of the caller with this ID and this initial number, with these blocks.
fn conclusion_of<'a>(id: u32, initial: u32, blocks: &'a [Block<'a>]) -> Sample<'a> {
    let caller = Caller {
        id,
        initial,
        mtu: 1500,
        window: 8192,
        cookie: 0xecc9_58a6,
    };
    conclusion(caller, blocks)
}

/// Returns the answer to a conclusion with this initial number, from the session with this ID.
fn answer_to<'a>(initial: u32, session: u32) -> Sample<'a> {
    conclusion_answer(initial, 1024, session, &RESPONSE)
}

/// Returns the conclusion of a caller that requests to publish.
pub fn publisher_conclusion<'a>() -> Coming<'a> {
    Coming {
        port: PUBLISHER,
        moment: 1_000_000,
        sample: conclusion_of(PUBLISHER_ID, PUBLISHER_INITIAL, &PUBLISHES),
    }
}

/// Returns the publisher's first data packet.
pub fn publisher_data<'a>() -> Coming<'a> {
    Coming {
        port: PUBLISHER,
        moment: 1_002_000,
        sample: data_packet(PUBLISHER_INITIAL)
            .flags(0xe000_0001)
            .stamp(1_000)
            .to(PUBLISHER_SESSION)
            .payload(b"hi"),
    }
}

/// Returns the conclusion of a caller that requests the stream.
pub fn subscriber_conclusion<'a>() -> Coming<'a> {
    Coming {
        port: SUBSCRIBER,
        moment: 1_010_000,
        sample: conclusion_of(SUBSCRIBER_ID, SUBSCRIBER_INITIAL, &REQUESTS),
    }
}

/// Time at which the data packet is delivered, in microseconds.
pub const DELIVERY: u64 = 1_121_000;

/// Returns the answer to the publisher's conclusion.
pub fn publisher_answer<'a>() -> Expected<'a> {
    Expected {
        port: PUBLISHER,
        sample: answer_to(PUBLISHER_INITIAL, PUBLISHER_SESSION).to(PUBLISHER_ID),
    }
}

/// Returns the answer to the subscriber's conclusion.
pub fn subscriber_answer<'a>() -> Expected<'a> {
    Expected {
        port: SUBSCRIBER,
        sample: answer_to(SUBSCRIBER_INITIAL, SUBSCRIBER_SESSION).to(SUBSCRIBER_ID),
    }
}

/// Returns the Full ACK of the data packet with this number, at this timestamp, with this available buffer size.
fn acknowledgement<'a>(number: u32, stamp: u32, available: u32) -> Expected<'a> {
    let acknowledged = Acknowledged {
        point: PUBLISHER_INITIAL + 1,
        rtt: 100_000,
        variance: 50_000,
        available,
    };
    Expected {
        port: PUBLISHER,
        sample: full_ack(number, acknowledged).stamp(stamp).to(PUBLISHER_ID),
    }
}

/// Returns the data packet as sent to the subscriber.
fn subscriber_data<'a>() -> Expected<'a> {
    Expected {
        port: SUBSCRIBER,
        sample: data_packet(SUBSCRIBER_INITIAL)
            .flags(0xe000_0001)
            .stamp(111_000)
            .to(SUBSCRIBER_ID)
            .payload(b"hi"),
    }
}

/// The replies to the publisher's conclusion, the data packet, the subscriber's conclusion and the tick at the
/// delivery: two answers, a Full ACK, another one at the delivery, and the data packet to the subscriber.
pub fn replies<'a>() -> [Expected<'a>; 5] {
    [
        publisher_answer(),
        subscriber_answer(),
        acknowledgement(1, 10_000, 1023),
        acknowledgement(2, 121_000, 1024),
        subscriber_data(),
    ]
}
