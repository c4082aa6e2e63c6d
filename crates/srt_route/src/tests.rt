//! Sessions open, get their answer again, and close; and each refusal. A route doesn't check a conclusion's cookie, so
//! it is arbitrary here.

use crate::{Reply, Route, SessionView, Traffic};
use srt_samples::{
    Block, Caller, Handshake, Offer, Phase, Sample, conclusion, data_packet, first_difference,
    handshake_packet, keep_alive, shutdown,
};
use srt_types::{Access, Entry, Item, Mode, OpenFault, Peer, Role, Rules};
use std::alloc::Global;
use std::process::Abort;
use std::test::Fail;

const HSREQ: Block<'static> = Block::Request(Offer {
    version: 0x1_0500,
    flags: 0xbf,
    receiver_ms: 120,
    sender_ms: 120,
});

/// With the flag for messages in a stream, which is refused.
const STREAM: Block<'static> = Block::Request(Offer {
    version: 0x1_0500,
    flags: 0xff,
    receiver_ms: 120,
    sender_ms: 120,
});

const PUBLISH: Block<'static> = Block::StreamId("#!::r=studio,m=publish");

const REQUEST: Block<'static> = Block::StreamId("studio");

/// The blocks of a publisher, of one whose flags are refused, and of a subscriber.
pub(crate) const PUBLISHES: [Block<'static>; 2] = [HSREQ, PUBLISH];

pub(crate) const PUBLISHES_A_STREAM: [Block<'static>; 2] = [STREAM, PUBLISH];

pub(crate) const REQUESTS: [Block<'static>; 2] = [HSREQ, REQUEST];

pub(crate) const FIRST: Caller = Caller {
    id: 1,
    initial: 5,
    mtu: 1500,
    window: 8192,
    cookie: 0x1234_5678,
};

pub(crate) const SECOND: Caller = Caller {
    id: 2,
    initial: 9,
    mtu: 1500,
    window: 8192,
    cookie: 0x1234_5678,
};

/// The socket ID of the first session in slot 0.
const SLOT_0: u32 = 0x10_0000;

pub(crate) fn peer(port: u16) -> Peer {
    let mut ip = [0u8; 16];
    ip[10] = 0xff;
    ip[11] = 0xff;
    ip[12] = 127;
    ip[15] = 1;
    Peer { ip, port }
}

pub(crate) fn entry(alloc: Global, name: &str, mode: Mode) -> Result<Entry, Fail> {
    let buffer = match mode {
        Mode::Live => 1024,
        Mode::Buffer => 32,
    };
    Ok(Entry {
        name: String::from_str(alloc, name)?,
        mode,
        latency_ms: 120,
        buffer,
        sessions: 5,
        inbox: 16,
        outbox: 16,
        access: Access::anyone(),
        rules: Rules::DRAFT,
    })
}

pub(crate) fn studio(alloc: Global) -> Result<Route, Fail> {
    match Route::open(alloc, &entry(alloc, "studio", Mode::Live)?, 0) {
        Ok(route) => Ok(route),
        Err(_) => Err(Fail::from("the route opens")),
    }
}

/// Asserts that this is the route's reply to a datagram.
fn assert_answered(
    rt: &(impl AllocGlobal + Abort),
    route: &mut Route,
    from: Peer,
    sample: Sample<'_>,
    answer: Sample<'_>,
) -> Result<(), Fail> {
    let wanted = answer.bytes(rt.alloc())?;
    assert_replied(rt, route, from, sample, &wanted)
}

/// Asserts that the route doesn't reply to a datagram.
fn assert_unanswered(
    rt: &(impl AllocGlobal + Abort),
    route: &mut Route,
    from: Peer,
    sample: Sample<'_>,
) -> Result<(), Fail> {
    assert_replied(rt, route, from, sample, &[])
}

/// Asserts the bytes of the route's reply to a datagram, none if there is no reply.
fn assert_replied(
    rt: &(impl AllocGlobal + Abort),
    route: &mut Route,
    from: Peer,
    sample: Sample<'_>,
    wanted: &[u8],
) -> Result<(), Fail> {
    let bytes = sample.bytes(rt.alloc())?;
    if bytes.len() < 16 || route.waits() {
        return Err(Fail::from("a header, and no reply that waits"));
    }
    let mut head = [0u8; 16];
    head.copy_from_slice(&bytes[..16]);
    let item = Item::Datagram {
        peer: from,
        moment: 1_000_000,
        head,
        body: Vec::from_slice(rt.alloc(), &bytes[16..])?,
    };
    let waiting = route.step(&item);
    let mut out = [0u8; 1472];
    let mut len = 0;
    let mut place = Box::new(rt.alloc(), Reply::blank())?;
    if route.next_reply(&mut place) {
        assert_eq!(rt; waiting, 1);
        assert!(rt; place.peer == from);
        len = place.packet.copy_to(&mut out);
    } else {
        assert_eq!(rt; waiting, 0);
    }
    assert_eq!(rt; first_difference(&out[..len], wanted), None);
    assert!(rt; !route.waits());
    Ok(())
}

/// Asserts what a route sends that is closed at this time: a SHUTDOWN to each of these ports and socket IDs, with the
/// timestamp of half a second.
fn assert_closed(
    rt: &(impl AllocGlobal + Abort),
    route: &mut Route,
    moment: u64,
    shutdowns: &[(u16, u32)],
) -> Result<(), Fail> {
    if route.waits() || moment > 10_000_000 {
        return Err(Fail::from("an early moment, and no reply that waits"));
    }
    let waiting = route.step(&Item::Close { moment });
    assert_eq!(rt; waiting, shutdowns.len());
    let mut out = [0u8; 1472];
    let mut place = Box::new(rt.alloc(), Reply::blank())?;
    for (port, id) in shutdowns {
        assert!(rt; route.next_reply(&mut place));
        assert!(rt; place.peer == peer(*port));
        let len = place.packet.copy_to(&mut out);
        let wanted = shutdown().stamp(500_000).to(*id).bytes(rt.alloc())?;
        assert_eq!(rt; first_difference(&out[..len], &wanted), None);
    }
    assert!(rt; !route.waits());
    Ok(())
}

/// A refusal of this caller.
fn refusal<'a>(caller: Caller, code: u32) -> Sample<'a> {
    handshake_packet(
        Handshake {
            version: 5,
            fields: 0,
            initial: caller.initial,
            mtu: 1500,
            window: 8192,
            phase: Phase::Refused(code),
            id: 1,
            cookie: 0,
            address: 0,
        },
        &[],
    )
    .to(caller.id)
}

/// HSRSP with delays of 120 ms, and with one of 200 ms.
const RESPONSE: [Block<'static>; 1] = [Block::Response(Offer {
    version: 0x1_0500,
    flags: 0x3f,
    receiver_ms: 120,
    sender_ms: 120,
})];

const RESPONSE_200: [Block<'static>; 1] = [Block::Response(Offer {
    version: 0x1_0500,
    flags: 0x3f,
    receiver_ms: 200,
    sender_ms: 120,
})];

/// An answer of the live route to this caller, with this socket ID and these blocks.
fn agreed<'a>(caller: Caller, id: u32, blocks: &'a [Block<'a>]) -> Sample<'a> {
    handshake_packet(
        Handshake {
            version: 5,
            fields: 1,
            initial: caller.initial,
            mtu: 1500,
            window: 1024,
            phase: Phase::Conclusion,
            id,
            cookie: 0,
            address: 0,
        },
        blocks,
    )
    .to(caller.id)
}

/// A data packet of the first session in slot 0, with its first number, one millisecond after its conclusion.
fn media<'a>() -> Sample<'a> {
    data_packet(5).stamp(1_000).to(SLOT_0).payload(b"hi")
}

#[test]
fn a_publisher_is_answered_again_and_ends(rt: HostRuntime) -> Result<(), Fail> {
    let alloc = rt.alloc();
    let mut route = studio(alloc)?;
    let first = conclusion(FIRST, &PUBLISHES);
    let answer = agreed(FIRST, SLOT_0, &RESPONSE);
    assert_answered(&rt, &mut route, peer(5000), first, answer)?;
    assert_answered(&rt, &mut route, peer(5000), first, answer)?;
    // Another publisher, which is the standby, and a shutdown from another peer.
    let second = conclusion(SECOND, &PUBLISHES);
    assert_answered(
        &rt,
        &mut route,
        peer(5001),
        second,
        agreed(SECOND, 0x10_0001, &RESPONSE),
    )?;
    let end = shutdown().to(SLOT_0);
    assert_unanswered(&rt, &mut route, peer(5001), end)?;
    assert_answered(&rt, &mut route, peer(5000), first, answer)?;
    // Its own shutdown, and the next session in that slot.
    assert_unanswered(&rt, &mut route, peer(5000), end)?;
    let next = agreed(FIRST, 0x10_0100, &RESPONSE);
    assert_answered(&rt, &mut route, peer(5000), first, next)
}

/// A subscriber's blocks with a sender's delay of 200 ms.
const LATE_REQUESTS: [Block<'static>; 2] = [
    Block::Request(Offer {
        version: 0x1_0500,
        flags: 0xbf,
        receiver_ms: 120,
        sender_ms: 200,
    }),
    REQUEST,
];

/// A publisher's blocks with delays of 1 ms, and flags that are refused.
const PUBLISHES_EARLY: [Block<'static>; 2] = [
    Block::Request(Offer {
        version: 0x1_0500,
        flags: 0xff,
        receiver_ms: 1,
        sender_ms: 1,
    }),
    PUBLISH,
];

#[test]
fn the_answer_to_a_changed_conclusion_is_the_first(rt: HostRuntime) -> Result<(), Fail> {
    let alloc = rt.alloc();
    let mut route = studio(alloc)?;
    let first = conclusion(FIRST, &LATE_REQUESTS);
    let answer = agreed(FIRST, SLOT_0, &RESPONSE_200);
    assert_answered(&rt, &mut route, peer(5000), first, answer)?;
    let caller = Caller {
        initial: 7,
        mtu: 1,
        window: 0,
        ..FIRST
    };
    let changed = conclusion(caller, &PUBLISHES_EARLY);
    assert_answered(&rt, &mut route, peer(5000), changed, answer)
}

#[test]
fn refusals_come_in_their_order(rt: HostRuntime) -> Result<(), Fail> {
    let alloc = rt.alloc();
    let mut route = studio(alloc)?;
    for (mtu, window, blocks, code) in [
        (70, 8192, &PUBLISHES_A_STREAM, 1012),
        (75, 8192, &PUBLISHES, 1004),
        (1500, 0, &PUBLISHES, 1004),
    ] {
        let caller = Caller {
            mtu,
            window,
            ..FIRST
        };
        let sample = conclusion(caller, blocks);
        assert_answered(&rt, &mut route, peer(5000), sample, refusal(FIRST, code))?;
    }
    let first = conclusion(FIRST, &PUBLISHES);
    let ids = [SLOT_0, 0x10_0001, 0x10_0002, 0x10_0003, 0x10_0004];
    let answer = agreed(FIRST, ids[0], &RESPONSE);
    assert_answered(&rt, &mut route, peer(5000), first, answer)?;
    let request = conclusion(FIRST, &REQUESTS);
    // A standby, and three subscribers.
    for k in 1..5 {
        let sample = if k == 1 { first } else { request };
        let answer = agreed(FIRST, ids[k], &RESPONSE);
        assert_answered(&rt, &mut route, peer(5000 + k as u16), sample, answer)?;
    }
    let refused = refusal(FIRST, 1002);
    assert_answered(&rt, &mut route, peer(5005), first, refused)?;
    let refused = refusal(FIRST, 1003);
    assert_answered(&rt, &mut route, peer(5005), request, refused)
}

/// The content of HSREQ and HSRSP in buffer mode.
const FILE_OFFER: Offer = Offer {
    version: 0x1_0500,
    flags: 0x74,
    receiver_ms: 0,
    sender_ms: 0,
};

pub(crate) const PUBLISHES_FILES: [Block<'static>; 3] = [
    Block::Request(FILE_OFFER),
    Block::StreamId("#!::r=files,m=publish"),
    Block::Congestion("file"),
];

const FILE_RESPONSE: [Block<'static>; 2] = [Block::Response(FILE_OFFER), Block::Congestion("file")];

pub(crate) const REQUESTS_FILES: [Block<'static>; 2] = [
    Block::Request(FILE_OFFER),
    Block::StreamId("files"),
];

#[test]
fn buffer_mode_agrees_on_no_delays(rt: HostRuntime) -> Result<(), Fail> {
    let alloc = rt.alloc();
    let opened = Route::open(alloc, &entry(alloc, "files", Mode::Buffer)?, 1);
    let mut route = opened.ok().ok_or("the route opens")?;
    let first = conclusion(
        Caller {
            window: 25_600,
            ..FIRST
        },
        &PUBLISHES_FILES,
    );
    let answer = handshake_packet(
        Handshake {
            version: 5,
            fields: 5,
            initial: 5,
            mtu: 1500,
            window: 32,
            phase: Phase::Conclusion,
            id: 0x20_0000,
            cookie: 0,
            address: 0,
        },
        &FILE_RESPONSE,
    );
    assert_answered(&rt, &mut route, peer(5000), first, answer.to(1))?;
    let second = Caller {
        mtu: 1499,
        ..SECOND
    };
    let refused = refusal(second, 1004);
    assert_answered(
        &rt,
        &mut route,
        peer(5001),
        conclusion(second, &REQUESTS_FILES),
        refused,
    )
}

#[test]
fn what_opens_nothing_is_not_answered(rt: HostRuntime) -> Result<(), Fail> {
    let alloc = rt.alloc();
    let mut route = studio(alloc)?;
    let high = Caller {
        initial: 0x8000_0005,
        ..FIRST
    };
    let no_name = conclusion(FIRST, &PUBLISHES[..1]);
    for sample in [
        conclusion(high, &PUBLISHES),
        conclusion(FIRST, &PUBLISHES[1..]),
        no_name,
        // The type of a block without anything after it.
        no_name.payload(&[0, 5]),
        data_packet(0),
        keep_alive(),
        media(),
    ] {
        assert_unanswered(&rt, &mut route, peer(5000), sample)?;
    }
    if route.waits() {
        return Err(Fail::from("no reply waits"));
    }
    assert_eq!(rt; route.step(&Item::Tick { moment: 5 }), 0);
    Ok(())
}

#[test]
fn a_wrong_entry_is_refused(rt: HostRuntime) -> Result<(), Fail> {
    let alloc = rt.alloc();
    let mut wrong = entry(alloc, "studio", Mode::Live)?;
    assert_eq!(rt;
        Route::open(alloc, &wrong, 511).err(),
        Some(OpenFault::Limits)
    );
    wrong.sessions = 18;
    assert_eq!(rt;
        Route::open(alloc, &wrong, 0).err(),
        Some(OpenFault::Limits)
    );
    wrong.name = String::from_str(alloc, "a b")?;
    assert_eq!(rt; Route::open(alloc, &wrong, 0).err(), Some(OpenFault::Names));
    Ok(())
}

#[test]
fn a_closed_route_sends_shutdowns_and_nothing_more(rt: HostRuntime) -> Result<(), Fail> {
    let alloc = rt.alloc();
    let mut route = studio(alloc)?;
    let first = conclusion(FIRST, &PUBLISHES);
    let answer = agreed(FIRST, SLOT_0, &RESPONSE);
    assert_answered(&rt, &mut route, peer(5000), first, answer)?;
    assert_closed(&rt, &mut route, 1_500_000, &[(5000, FIRST.id)])?;
    assert_closed(&rt, &mut route, 1_600_000, &[])?;
    // Its repeated conclusion, that of another caller, and a data packet.
    let request = conclusion(SECOND, &REQUESTS);
    assert_unanswered(&rt, &mut route, peer(5000), first)?;
    assert_unanswered(&rt, &mut route, peer(5001), request)?;
    assert_unanswered(&rt, &mut route, peer(5000), media())?;
    if route.waits() {
        return Err(Fail::from("no reply waits"));
    }
    assert_eq!(rt; route.step(&Item::Tick { moment: 2_000_000 }), 0);
    Ok(())
}

#[test]
fn shutdowns_come_slots_upwards(rt: HostRuntime) -> Result<(), Fail> {
    let alloc = rt.alloc();
    let mut route = studio(alloc)?;
    let first = conclusion(FIRST, &PUBLISHES);
    let answer = agreed(FIRST, SLOT_0, &RESPONSE);
    assert_answered(&rt, &mut route, peer(5000), first, answer)?;
    let second = conclusion(SECOND, &REQUESTS);
    assert_answered(
        &rt,
        &mut route,
        peer(5001),
        second,
        agreed(SECOND, 0x10_0001, &RESPONSE),
    )?;
    // The first caller leaves and reconnects: it opens last, in slot 0.
    let end = shutdown().to(SLOT_0);
    assert_unanswered(&rt, &mut route, peer(5000), end)?;
    let next = agreed(FIRST, 0x10_0100, &RESPONSE);
    assert_answered(&rt, &mut route, peer(5000), first, next)?;
    let shutdowns = [(5000, FIRST.id), (5001, SECOND.id)];
    assert_closed(&rt, &mut route, 1_500_000, &shutdowns)
}

#[test]
fn an_idle_session_gets_no_shutdown(rt: HostRuntime) -> Result<(), Fail> {
    let alloc = rt.alloc();
    let mut route = studio(alloc)?;
    let first = conclusion(FIRST, &PUBLISHES);
    let answer = agreed(FIRST, SLOT_0, &RESPONSE);
    assert_answered(&rt, &mut route, peer(5000), first, answer)?;
    assert_closed(&rt, &mut route, 6_000_000, &[])
}

/// Asserts a session's port, role, socket ID and whether it is active, of a session that opened at one second.
fn assert_shown(
    rt: &(impl AllocGlobal + Abort),
    shown: Option<SessionView>,
    port: u16,
    role: Role,
    id: u32,
    is_active: bool,
) -> Result<SessionView, Fail> {
    let Some(view) = shown else {
        return Err(Fail::from("a session is open in the slot"));
    };
    assert!(rt; view.peer == peer(port));
    assert!(rt; view.role == role);
    assert_eq!(rt; (view.id, view.is_active), (id, is_active));
    assert_eq!(rt; (view.opened, view.heard), (1_000_000, 1_000_000));
    assert_eq!(rt; view.latency_ms, 120);
    Ok(view)
}

#[test]
fn a_look_shows_the_open_sessions(rt: HostRuntime) -> Result<(), Fail> {
    let alloc = rt.alloc();
    let mut route = studio(alloc)?;
    assert!(rt; route.session(0).is_none());
    let first = conclusion(FIRST, &PUBLISHES);
    let answer = agreed(FIRST, SLOT_0, &RESPONSE);
    assert_answered(&rt, &mut route, peer(5000), first, answer)?;
    let second = conclusion(SECOND, &PUBLISHES);
    assert_answered(
        &rt,
        &mut route,
        peer(5001),
        second,
        agreed(SECOND, 0x10_0001, &RESPONSE),
    )?;
    let request = conclusion(FIRST, &REQUESTS);
    let answer = agreed(FIRST, 0x10_0002, &RESPONSE);
    assert_answered(&rt, &mut route, peer(5002), request, answer)?;
    assert_unanswered(&rt, &mut route, peer(5000), media())?;
    let active = assert_shown(&rt, route.session(0), 5000, Role::Publish, 0x10_0000, true)?;
    match active.traffic {
        Traffic::Received(x) => {
            assert_eq!(rt; (x.counts.received, x.counts.bytes, x.in_use), (1, 2, 1));
        }
        Traffic::Sent(_) => return Err(Fail::from("a publisher's counts")),
    }
    let _ = assert_shown(&rt, route.session(1), 5001, Role::Publish, 0x10_0001, false)?;
    let sent = assert_shown(&rt, route.session(2), 5002, Role::Request, 0x10_0002, false)?;
    match sent.traffic {
        Traffic::Sent(x) => assert_eq!(rt; (x.counts.queued, x.room), (0, 1024)),
        Traffic::Received(_) => return Err(Fail::from("a subscriber's counts")),
    }
    assert!(rt; route.session(3).is_none() && route.session(17).is_none());
    // The active publisher leaves: its slot is empty, and the other one is active.
    let end = shutdown().to(SLOT_0);
    assert_unanswered(&rt, &mut route, peer(5000), end)?;
    assert!(rt; route.session(0).is_none());
    let _ = assert_shown(&rt, route.session(1), 5001, Role::Publish, 0x10_0001, true)?;
    Ok(())
}
