//! What callers from port 5000 send, and what is sent to them. The cookie was computed by Python's hashlib; the other
//! words were worked out from the draft by hand.

use srt_samples::{
    Block, Handshake, Offer, Phase, Sample, data_packet, handshake_packet, shutdown,
};

/// The socket ID in an INDUCTION.
pub const CALLER: u32 = 12_345_678;

/// The socket IDs of the sessions: in the first slot of the first route and in its second, and in the first of the second
/// route.
pub const SESSION: u32 = 0x10_0000;

const STANDBY: u32 = 0x10_0001;

const FILES_SESSION: u32 = 0x20_0000;

/// The socket ID of the first session of the third route.
const THIRD_SESSION: u32 = 0x30_0000;

/// The cookie of port 5000 in the first minute.
const COOKIE: u32 = 0xecc9_58a6;

const HSREQ: Block<'static> = Block::Request(Offer {
    version: 0x1_0500,
    flags: 0xbf,
    receiver_ms: 120,
    sender_ms: 120,
});

/// With the flag STREAM.
const HSREQ_WITH_STREAM: Block<'static> = Block::Request(Offer {
    version: 0x1_0500,
    flags: 0xff,
    receiver_ms: 120,
    sender_ms: 120,
});

/// The blocks of a publisher on the first route, on the second, and on the second with the flag STREAM.
pub const STUDIO: [Block<'static>; 2] = [HSREQ, Block::StreamId("#!::r=studio,m=publish")];

pub const FILES: [Block<'static>; 2] = [HSREQ, Block::StreamId("#!::r=files,m=publish")];

/// The blocks of a publisher on a route that comes.
pub const CAMERA: [Block<'static>; 2] = [HSREQ, Block::StreamId("#!::r=camera,m=publish")];

const FILES_WITH_STREAM: [Block<'static>; 2] = [
    HSREQ_WITH_STREAM,
    Block::StreamId("#!::r=files,m=publish"),
];

/// The block of an answer in live mode, and in buffer mode.
const LIVE_RESPONSE: [Block<'static>; 1] = [Block::Response(Offer {
    version: 0x1_0500,
    flags: 0x3f,
    receiver_ms: 120,
    sender_ms: 120,
})];

const BUFFER_RESPONSE: [Block<'static>; 1] = [Block::Response(Offer {
    version: 0x1_0500,
    flags: 0x74,
    receiver_ms: 0,
    sender_ms: 0,
})];

/// The INDUCTION of the caller with this ID.
pub fn induction_of<'a>(caller: u32) -> Sample<'a> {
    handshake_packet(
        Handshake {
            version: 4,
            fields: 2,
            initial: 5,
            mtu: 1500,
            window: 8192,
            phase: Phase::Induction,
            id: caller,
            cookie: 0,
            address: 0,
        },
        &[],
    )
}

/// The answer to it in the first minute.
pub fn induction_answer<'a>(caller: u32) -> Sample<'a> {
    handshake_packet(
        Handshake {
            version: 5,
            fields: 0x4a17,
            initial: 5,
            mtu: 1500,
            window: 8192,
            phase: Phase::Induction,
            id: 1,
            cookie: COOKIE,
            address: 0,
        },
        &[],
    )
    .to(caller)
}

/// The CONCLUSION of the caller with this ID, with these blocks.
pub fn conclusion_of<'a>(caller: u32, blocks: &'a [Block<'a>]) -> Sample<'a> {
    handshake_packet(
        Handshake {
            version: 5,
            fields: 5,
            initial: 5,
            mtu: 1500,
            window: 8192,
            phase: Phase::Conclusion,
            id: caller,
            cookie: COOKIE,
            address: 0,
        },
        blocks,
    )
}

/// An answer to a CONCLUSION of the caller with this ID: the window in packets, the session's ID, and the blocks.
fn conclusion_answer<'a>(
    caller: u32,
    window: u32,
    session: u32,
    blocks: &'a [Block<'a>],
) -> Sample<'a> {
    handshake_packet(
        Handshake {
            version: 5,
            fields: 1,
            initial: 5,
            mtu: 1500,
            window,
            phase: Phase::Conclusion,
            id: session,
            cookie: 0,
            address: 0,
        },
        blocks,
    )
    .to(caller)
}

/// The answer to the first publisher of the first route, also to the same CONCLUSION again.
pub fn publisher_answer<'a>(caller: u32) -> Sample<'a> {
    conclusion_answer(caller, 1024, SESSION, &LIVE_RESPONSE)
}

/// The answer to the second publisher, which stands by in the second slot.
pub fn standby_answer<'a>(caller: u32) -> Sample<'a> {
    conclusion_answer(caller, 1024, STANDBY, &LIVE_RESPONSE)
}

/// The answer to the first publisher of the second route.
pub fn files_answer<'a>(caller: u32) -> Sample<'a> {
    conclusion_answer(caller, 32, FILES_SESSION, &BUFFER_RESPONSE)
}

/// The answer to the first publisher of the third route, which is live, also to the same CONCLUSION again.
pub fn third_answer<'a>(caller: u32) -> Sample<'a> {
    conclusion_answer(caller, 1024, THIRD_SESSION, &LIVE_RESPONSE)
}

/// The refusal of a CONCLUSION of the caller with this ID, with this code.
pub fn refusal<'a>(caller: u32, code: u32) -> Sample<'a> {
    handshake_packet(
        Handshake {
            version: 5,
            fields: 0,
            initial: 5,
            mtu: 1500,
            window: 8192,
            phase: Phase::Refused(code),
            id: 1,
            cookie: 0,
            address: 0,
        },
        &[],
    )
    .to(caller)
}

/// The refusal of a CONCLUSION while its route is hidden.
pub fn hidden_refusal<'a>(caller: u32) -> Sample<'a> {
    refusal(caller, 1002)
}

/// A SHUTDOWN to a socket ID that is no route's.
pub fn stray_shutdown<'a>() -> Sample<'a> {
    shutdown().to(0x40_0000)
}

/// The first data packet of the first route's first session.
pub fn publisher_data<'a>() -> Sample<'a> {
    data_packet(5).flags(0xe000_0001).to(SESSION).payload(b"hi")
}

/// The SHUTDOWN that the caller with this ID gets at the moment at which its session was opened.
pub fn early_shutdown_of<'a>(caller: u32) -> Sample<'a> {
    shutdown().to(caller)
}

/// The SHUTDOWN that the caller with this ID gets, half a second after its session was opened.
pub fn shutdown_of<'a>(caller: u32) -> Sample<'a> {
    shutdown().stamp(500_000).to(caller)
}

/// The CONCLUSION of the second caller, which asks to publish on the second route, with the flag STREAM.
pub fn files_conclusion<'a>() -> Sample<'a> {
    conclusion_of(2, &FILES_WITH_STREAM)
}
