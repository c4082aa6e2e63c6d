//! The datagrams of these runs. The cookie was computed by Python's hashlib; the other words were worked out from the
//! draft by hand.

use srt_samples::{
    Block, Body, Caller, HSREQ, HSRSP, Handshake, Phase, Sample, conclusion, handshake_packet,
};

/// The socket IDs of the callers.
pub const FIRST: u32 = 1;

pub const SECOND: u32 = 2;

/// The socket IDs of the first sessions of these routes: of the first three, and of the one with index 510.
pub const FIRST_ROUTE: u32 = 0x10_0000;

pub const SECOND_ROUTE: u32 = 0x20_0000;

pub const THIRD_ROUTE: u32 = 0x30_0000;

pub const LAST_ROUTE: u32 = 0x1ff0_0000;

/// The cookie of port 5000 in the first minute.
const COOKIE: u32 = 0xecc9_58a6;

/// The blocks of a publisher on the route `studio`, and of one on the route `studia`.
pub const STUDIO: [Block<'static>; 2] = [HSREQ, Block::StreamId("#!::r=studio,m=publish")];

pub const STUDIA: [Block<'static>; 2] = [HSREQ, Block::StreamId("#!::r=studia,m=publish")];

/// The block of an answer.
const RESPONSE: [Block<'static>; 1] = [HSRSP];

/// An answer of the lobby, but for its type.
const FROM_THE_LOBBY: Handshake = Handshake {
    version: 5,
    fields: 0,
    initial: 5,
    mtu: 1500,
    window: 8192,
    phase: Phase::Induction,
    id: 1,
    cookie: 0,
    address: 0,
};

/// The CONCLUSION from port 5000 of the caller with this ID, with these blocks.
pub fn conclusion_of<'a>(id: u32, blocks: &'a [Block<'a>]) -> Sample<'a> {
    let caller = Caller {
        id,
        initial: 5,
        mtu: 1500,
        window: 8192,
        cookie: COOKIE,
    };
    conclusion(caller, blocks)
}

/// The answer to a caller whose session has this socket ID, with a window of so many packets.
pub fn answer_to<'a>(caller: u32, session: u32, window: u32) -> Sample<'a> {
    srt_samples::conclusion_answer(5, window, session, &RESPONSE).to(caller)
}

/// The answer to the first caller of the route `studio` with a window of 1024 packets.
pub fn conclusion_answer<'a>() -> Sample<'a> {
    answer_to(FIRST, FIRST_ROUTE, 1024)
}

/// The lobby's answer to the first caller while there is no route `studio`: 1002.
pub fn refusal<'a>() -> Sample<'a> {
    srt_samples::refusal(5, 1002).to(FIRST)
}

/// An answer to an INDUCTION of the first caller.
pub fn induction_answer<'a>() -> Sample<'a> {
    handshake_packet(FROM_THE_LOBBY, &[]).to(FIRST)
}

/// The header of a handshake without anything behind it.
pub fn header_alone<'a>() -> Sample<'a> {
    let whole = handshake_packet(FROM_THE_LOBBY, &[]);
    Sample {
        destination: 5000,
        body: Body::Nothing,
        ..whole
    }
}
