//! Datagrams and their classes. The cookies were computed by Python's hashlib, and the words of callers are as libsrt
//! sends them.

ghost use Rattle.std.specs.Prelude.{◌^◌, ◌<◌};

mod appending;
mod causes;
mod keys;
mod replacing;

use crate::{Cause, Class, Names, classify};
use srt_cookie::Secret;
use srt_types::{Access, Entry, MOMENT_END, Mode, OpenFault, Peer, Rules};
use std::alloc::Global;
use std::process::Abort;
use std::test::Fail;

const HEADER: &str = "80000000 00000000 00000000 00000000";

const INDUCTION: &str =
    "00000004 00000002 00000005 000005dc 00002000 00000001 00bc614e 00000000 00000000 00000000 00000000 00000000";

/// The 48 bytes of a conclusion, without its cookie and address.
const CONCLUSION: &str = "00000005 00000005 00000005 000005dc 00002000 ffffffff 00000001";

const OF_VERSION_4: &str = "00000004 00000005 00000005 000005dc 00002000 ffffffff 00000001";

const FALSE_NUMBER: &str = "00000005 00000005 80000005 000005dc 00002000 ffffffff 00000001";

const ADDRESS: &str = "00000000 00000000 00000000 00000000";

const HSREQ: &str = "00010003 00010500 000000bf 00780078";

const KMREQ: &str = "00030001 00000000";

const FILTER: &str = "00070001 00000000";

const GROUP: &str = "00080001 00000000";

/// `studio`
const STUDIO: &str = "00050002 64757473 00006f69";

/// `#!::r=studio,m=publish`
const PUBLISH_STUDIO: &str = "00050006 3a3a2123 74733d72 6f696475 703d6d2c 696c6275 00006873";

/// `#!::r=studio,m=request`
const REQUEST_STUDIO: &str = "00050006 3a3a2123 74733d72 6f696475 723d6d2c 65757165 00007473";

/// `#!::r=files,m=publish`
const PUBLISH_FILES: &str = "00050006 3a3a2123 69663d72 2c73656c 75703d6d 73696c62 00000068";

/// `abc`
const ABC: &str = "00050001 00636261";

/// `#!:{r=studio}`
const NESTED: &str = "00050004 7b3a2123 74733d72 6f696475 0000007d";

/// The byte ff.
const NO_TEXT: &str = "00050001 000000ff";

/// `studiX`, as long as `studio`
const AS_LONG: &str = "00050002 64757473 00005869";

/// Cookies of 127.0.0.1 at port 5000, by the minute.
const COOKIE_0: &str = "ecc958a6";

const COOKIE_3: &str = "c3ac78a5";

fn push_words(alloc: Global, bytes: &mut Vec<u8>, words: &str) -> Result<(), Fail> {
    for word in words.split(' ') {
        bytes.extend_from_slice(&hex::decode(alloc, word)?)?;
    }
    Ok(())
}

fn bytes_of(alloc: Global, parts: &[&str]) -> Result<Vec<u8>, Fail> {
    let mut bytes = Vec::new(alloc);
    for part in parts {
        push_words(alloc, &mut bytes, part)?;
    }
    Ok(bytes)
}

/// Returns the secret of the bytes 0 to 31.
fn secret() -> Secret {
    let mut bytes = [0u8; 32];
    for i in 0..32 {
        bytes[i] = i as u8;
    }
    Secret::new(bytes)
}

fn near(port: u16) -> Peer {
    Peer {
        ip: [0, 0, 0, 0, 0, 0, 0, 0, 0, 0, 0xff, 0xff, 127, 0, 0, 1],
        port,
    }
}

fn entry(alloc: Global, name: &str) -> Result<Entry, Fail> {
    Ok(Entry {
        name: String::from_str(alloc, name)?,
        mode: Mode::Live,
        latency_ms: 120,
        buffer: 1024,
        sessions: 5,
        inbox: 16,
        outbox: 16,
        access: Access::anyone(),
        rules: Rules::DRAFT,
    })
}

fn entries(alloc: Global, names: &[&str]) -> Result<Vec<Entry>, Fail> {
    let mut entries = Vec::new(alloc);
    for name in names {
        entries.push(entry(alloc, name)?)?;
    }
    Ok(entries)
}

fn opened(alloc: Global, names: &[&str]) -> Result<Names, Fail> {
    match Names::open(alloc, &entries(alloc, names)?) {
        Ok(names) => Ok(names),
        Err(_) => Err(Fail::from("names that don't open")),
    }
}

/// Returns the class of these words as a datagram from 127.0.0.1 at this port.
fn class_at(alloc: Global, port: u16, moment: u64, parts: &[&str]) -> Result<Class, Fail>
    requires { moment < 2 ^ 62 }
{
    let names = opened(alloc, &["studio", "files"])?;
    let bytes = bytes_of(alloc, parts)?;
    Ok(classify(&secret(), &names, near(port), &bytes, moment))
}

/// Returns the same in the first minute and at port 5000.
fn class(alloc: Global, parts: &[&str]) -> Result<Class, Fail> {
    class_at(alloc, 5000, 1_000_000, parts)
}

/// Returns the class of a conclusion with a valid cookie and these blocks.
fn concluded(alloc: Global, front: &str, blocks: &[&str]) -> Result<Class, Fail> {
    let mut bytes = bytes_of(alloc, &[HEADER, front, COOKIE_0, ADDRESS])?;
    for block in blocks {
        push_words(alloc, &mut bytes, block)?;
    }
    let names = opened(alloc, &["studio", "files"])?;
    Ok(classify(&secret(), &names, near(5000), &bytes, 1_000_000))
}

fn assert_answer(
    rt: &(impl AllocGlobal + Abort),
    class: Class,
    words: &[&str],
) -> Result<(), Fail> {
    match class {
        Class::Answer(bytes) => {
            let wanted = bytes_of(rt.alloc(), words)?;
            assert_eq!(rt; &bytes[..], wanted.as_slice());
            Ok(())
        }
        _ => Err(Fail::from("no answer")),
    }
}

/// Asserts that the first conclusion's caller is refused with this code.
fn assert_refused(rt: &(impl AllocGlobal + Abort), class: Class, code: &str) -> Result<(), Fail> {
    let front = "80000000 00000000 00000000 00000001 00000005 00000000 00000005 000005dc 00002000";
    let back = "00000001 00000000 00000000 00000000 00000000 00000000";
    assert_answer(rt, class, &[front, code, back])
}

#[test]
fn inductions_are_answered(rt: HostRuntime) -> Result<(), Fail> {
    let front =
        "80000000 00000000 00000000 00bc614e 00000005 00004a17 00000005 000005dc 00002000 00000001 00000001";
    for (port, moment, more, cookie) in [
        (5000u16, 0u64, "", COOKIE_0),
        (5001, 59_999_999, "", "6e4680bd"),
        (5000, 180_000_000, "", COOKIE_3),
        // bytes after the 48 aren't read
        (5000, 1_000_000, "0102030405", COOKIE_0),
    ] {
        if moment < MOMENT_END {
            let class = class_at(rt.alloc(), port, moment, &[HEADER, INDUCTION, more])?;
            assert_answer(&rt, class, &[front, cookie, ADDRESS])?;
        }
    }
    Ok(())
}

#[test]
fn a_captured_induction_is_answered(rt: HostRuntime) -> Result<(), Fail> {
    let captured =
        "80000000 00000000 000000d1 00000000 00000004 00000002 63cfb139 000005dc 00002000 00000001 17f5756c 00000000 0100007f 00000000 00000000 00000000";
    let class = class(rt.alloc(), &[captured])?;
    let front =
        "80000000 00000000 00000000 17f5756c 00000005 00004a17 63cfb139 000005dc 00002000 00000001 00000001";
    assert_answer(&rt, class, &[front, COOKIE_0, ADDRESS])
}

/// Asserts that each of these is dropped for this cause, in the first minute.
fn assert_dropped(
    rt: &(impl AllocGlobal + Abort),
    rows: &[[&str; 3]],
    cause: Cause,
) -> Result<(), Fail> {
    for row in rows {
        let class = class(rt.alloc(), row)?;
        assert_eq!(rt; class, Class::Dropped(cause), "{row:?}");
    }
    Ok(())
}

#[test]
fn no_packets(rt: HostRuntime) -> Result<(), Fail> {
    let rows = [
        ["80000000 00000000 00000000", "000000", ""],
        ["00000005 e0000001 00000000", "00100000", ""],
    ];
    assert_dropped(&rt, &rows, Cause::Packet)
}

#[test]
fn no_routes_and_no_handshakes(rt: HostRuntime) -> Result<(), Fail> {
    let header = "80010000 00000000 00000000";
    let rows = [
        [header, "00000001", ""],
        [header, "000fffff", ""],
        [header, "00300000", ""],
        [header, "00400000", ""],
        [header, "ffffffff", ""],
    ];
    assert_dropped(&rt, &rows, Cause::UnknownId)?;
    let rows = [
        [header, "00000000", ""],
        ["00000005 e0000001 00000000", "00000000", "6869"],
    ];
    assert_dropped(&rt, &rows, Cause::NotHandshake)
}

#[test]
fn no_handshakes_of_callers(rt: HostRuntime) -> Result<(), Fail> {
    let front = "80000000 00000000 00000000 00000000 00000004 00000002 00000005 000005dc 00002000";
    let back = "00bc614e ecc958a6 00000000 00000000 00000000 00000000";
    let rows = [
        [
            front,
            "00000001",
            "00bc614e ecc958a6 00000000 00000000 00000000 000000",
        ],
        [
            front,
            "ffffffff",
            "00bc614e ecc958a6 00000000 00000000 00000000 00000000 000000",
        ],
        [
            front,
            "ffffffff",
            "00bc614e ecc958a6 00000000 00000000 00000000 00000000 00050000 00050000",
        ],
    ];
    assert_dropped(&rt, &rows, Cause::Handshake)?;
    let rows = [
        [front, "fffffffe", back],
        [front, "fffffffd", back],
        [front, "00000000", back],
        [front, "000003ea", back],
    ];
    assert_dropped(&rt, &rows, Cause::WrongKind)
}

#[test]
fn over_1472_bytes_are_dropped(rt: HostRuntime) -> Result<(), Fail> {
    let names = opened(rt.alloc(), &["studio"])?;
    let mut bytes = [0u8; 1473];
    bytes[13] = 0x10;
    let most = classify(&secret(), &names, near(5000), &bytes[..1472], 0);
    assert_eq!(rt; most, Class::Route(0));
    let long = classify(&secret(), &names, near(5000), &bytes, 0);
    assert_eq!(rt; long, Class::Dropped(Cause::Packet));
    Ok(())
}

#[test]
fn sessions_tell_their_route(rt: HostRuntime) -> Result<(), Fail> {
    let alloc = rt.alloc();
    for (dest, route) in [
        ("00100000", 0),
        ("001fffff", 0),
        ("00200000", 1),
        ("002fff10", 1),
    ] {
        let shutdown = class(alloc, &["80050000 00000000 00000000", dest])?;
        assert_eq!(rt; shutdown, Class::Route(route), "{dest}");
        // the bytes of a handshake aren't read then
        let handshake = class(alloc, &["80000000 00000000 00000000", dest, "00"])?;
        assert_eq!(rt; handshake, Class::Route(route), "{dest}");
    }
    Ok(())
}

#[test]
fn cookies_hold_for_two_minutes(rt: HostRuntime) -> Result<(), Fail> {
    let words = [HEADER, CONCLUSION, COOKIE_3, ADDRESS, HSREQ, PUBLISH_STUDIO];
    let wrong = Class::Dropped(Cause::WrongCookie);
    for (port, moment, wanted) in [
        (5000u16, 179_999_999u64, wrong),
        (5000, 180_000_000, Class::Route(0)),
        (5000, 240_000_000, Class::Route(0)),
        (5000, 299_999_999, Class::Route(0)),
        (5000, 300_000_000, wrong),
        (5001, 180_000_000, wrong),
    ] {
        if moment < MOMENT_END {
            let class = class_at(rt.alloc(), port, moment, &words)?;
            assert_eq!(rt; class, wanted, "{port} {moment}");
        }
    }
    Ok(())
}

#[test]
fn wrong_cookies_come_before_refusals(rt: HostRuntime) -> Result<(), Fail> {
    let class = class(
        rt.alloc(),
        &[HEADER, OF_VERSION_4, COOKIE_3, ADDRESS, KMREQ],
    )?;
    assert_eq!(rt; class, Class::Dropped(Cause::WrongCookie));
    Ok(())
}

#[test]
fn conclusions_go_to_the_route_that_they_name(rt: HostRuntime) -> Result<(), Fail> {
    let other_flags = "00010003 00010500 000000ff 00780078";
    // the route checks what the lobby doesn't check
    let small = "00000005 00000005 00000005 0000004b 00000000 ffffffff 00000001";
    for (front, blocks, route) in [
        (CONCLUSION, [HSREQ, PUBLISH_STUDIO, ""], 0),
        (CONCLUSION, [HSREQ, REQUEST_STUDIO, ""], 0),
        (CONCLUSION, [HSREQ, STUDIO, ""], 0),
        (CONCLUSION, [HSREQ, PUBLISH_FILES, ""], 1),
        // a block of another type is ignored
        (CONCLUSION, [HSREQ, PUBLISH_STUDIO, "00000000"], 0),
        (small, [other_flags, PUBLISH_STUDIO, ""], 0),
    ] {
        let class = concluded(rt.alloc(), front, &blocks)?;
        assert_eq!(rt; class, Class::Route(route), "{blocks:?}");
    }
    Ok(())
}

#[test]
fn captured_conclusions_go_to_their_route(rt: HostRuntime) -> Result<(), Fail> {
    let front =
        "80000000 00000000 000001d3 00000000 00000005 00000005 63cf2f33 000005dc 00002000 ffffffff 1c2c57f4";
    let back = "0100007f 00000000 00000000 00000000";
    let live = "00010003 00010501 000000bf 00780000";
    let buffer = "00010003 00010501 000000e4 00000000";
    for (hsreq, id, congestion, route) in [
        (live, PUBLISH_STUDIO, "", 0),
        (live, STUDIO, "", 0),
        (live, REQUEST_STUDIO, "", 0),
        (buffer, PUBLISH_FILES, "00060001 656c6966", 1),
    ] {
        let words = [front, COOKIE_0, back, hsreq, id, congestion];
        let class = class(rt.alloc(), &words)?;
        assert_eq!(rt; class, Class::Route(route), "{id}");
    }
    Ok(())
}

#[test]
fn refusals_come_in_their_order(rt: HostRuntime) -> Result<(), Fail> {
    for (front, blocks, code) in [
        (OF_VERSION_4, [PUBLISH_STUDIO, "", "", ""], "000003f0"),
        (CONCLUSION, [PUBLISH_STUDIO, KMREQ, "", ""], "000003ec"),
        (CONCLUSION, ["", "", "", ""], "000003ec"),
        (
            CONCLUSION,
            [HSREQ, PUBLISH_STUDIO, KMREQ, FILTER],
            "000003f3",
        ),
        (
            CONCLUSION,
            [HSREQ, PUBLISH_STUDIO, GROUP, FILTER],
            "000003f6",
        ),
        (CONCLUSION, [HSREQ, ABC, GROUP, ""], "000003f7"),
    ] {
        let class = concluded(rt.alloc(), front, &blocks)?;
        assert_refused(&rt, class, code)?;
    }
    Ok(())
}

#[test]
fn unknown_routes_are_refused(rt: HostRuntime) -> Result<(), Fail> {
    for id in [ABC, NESTED, NO_TEXT, AS_LONG, "00050000", ""] {
        let class = concluded(rt.alloc(), CONCLUSION, &[HSREQ, id])?;
        assert_refused(&rt, class, "000003ea")?;
    }
    Ok(())
}

#[test]
fn a_false_initial_number_comes_back_as_it_came(rt: HostRuntime) -> Result<(), Fail> {
    let class = concluded(rt.alloc(), FALSE_NUMBER, &[HSREQ, PUBLISH_STUDIO])?;
    let front = "80000000 00000000 00000000 00000001 00000005 00000000 80000005 000005dc 00002000";
    let back = "000003ec 00000001 00000000 00000000 00000000 00000000 00000000";
    assert_answer(&rt, class, &[front, back])
}

/// Returns the fault of opening these entries, if there is one.
fn opening(alloc: Global, entries: &[Entry]) -> Option<OpenFault> {
    match Names::open(alloc, entries) {
        Ok(_) => None,
        Err(fault) => Some(fault),
    }
}

#[test]
fn names_have_their_form(rt: HostRuntime) -> Result<(), Fail> {
    let alloc = rt.alloc();
    let most = "abcdefghijklmnopqrstuvwxyzABCDEFGHIJKLMNOPQRSTUVWXYZ0123456789-_";
    assert!(rt; opening(alloc, &entries(alloc, &[most, "./", "a", "A"])?).is_none());
    for wrong in [
        "",
        "abcdefghijklmnopqrstuvwxyzABCDEFGHIJKLMNOPQRSTUVWXYZ0123456789-_x",
        "a b",
        "a,b",
        "a:b",
        "@",
        "[",
        "`",
        "{",
        "caf\u{e9}",
        "studio",
    ] {
        let fault = opening(alloc, &entries(alloc, &["studio", wrong])?);
        assert_eq!(rt; fault, Some(OpenFault::Names), "{wrong}");
    }
    Ok(())
}

#[test]
fn numbers_have_their_limits(rt: HostRuntime) -> Result<(), Fail> {
    let alloc = rt.alloc();
    assert_eq!(rt; opening(alloc, &[]), Some(OpenFault::Limits));
    for (i, low, high) in [
        (0, 20, 8000),
        (1, 32, 8192),
        (2, 1, 17),
        (3, 16, 4096),
        (4, 16, 4096),
    ] {
        for (n, fault) in [
            (low - 1, Some(OpenFault::Limits)),
            (low, None),
            (high, None),
            (high + 1, Some(OpenFault::Limits)),
        ] {
            let mut one = entry(alloc, "studio")?;
            match i {
                0 => one.latency_ms = n,
                1 => one.buffer = n,
                2 => one.sessions = n,
                3 => one.inbox = n,
                _ => one.outbox = n,
            }
            assert_eq!(rt; opening(alloc, &[one]), fault, "{i} {n}");
        }
    }
    // faults of names take precedence
    let mut one = entry(alloc, "studio")?;
    one.buffer = 31;
    let two = entry(alloc, "a b")?;
    assert_eq!(rt; opening(alloc, &[one, two]), Some(OpenFault::Names));
    Ok(())
}

#[test]
fn there_are_511_routes_at_most(rt: HostRuntime) -> Result<(), Fail> {
    let alloc = rt.alloc();
    let mut all = Vec::new(alloc);
    for i in 0..511u32 {
        let name = format!(in alloc; "route-{i}")?;
        all.push(entry(alloc, name.as_str())?)?;
    }
    let names = match Names::open(alloc, &all) {
        Ok(names) => names,
        Err(_) => return Err(Fail::from("names that don't open")),
    };
    let last = bytes_of(alloc, &["80050000 00000000 00000000 1ff00000"])?;
    let class = classify(&secret(), &names, near(5000), &last, 0);
    assert_eq!(rt; class, Class::Route(510));
    // `route-510`
    let requested = "00050003 74756f72 31352d65 00000030";
    let conclusion = bytes_of(
        alloc,
        &[HEADER, CONCLUSION, COOKIE_0, ADDRESS, HSREQ, requested],
    )?;
    let class = classify(&secret(), &names, near(5000), &conclusion, 0);
    assert_eq!(rt; class, Class::Route(510));
    all.push(entry(alloc, "one-more")?)?;
    assert_eq!(rt; opening(alloc, &all), Some(OpenFault::Limits));
    Ok(())
}

/// If an allocation fails, the opening returns that fault and frees its memory, and the next attempt is unaffected.
#[test]
fn refused_memory_is_reported(rt: HostRuntime) -> Result<(), Fail> {
    let alloc = rt.alloc();
    let all = entries(alloc, &["studio", "files"])?;
    match Names::open(alloc, &all) {
        Ok(_) => Ok(()),
        Err(fault) => {
            assert_eq!(rt; fault, OpenFault::OutOfMemory);
            assert!(rt; Names::open(alloc, &all).is_ok());
            Ok(())
        }
    }
}

/// Returns the class of these words with these names, in the first minute and at port 5000.
fn class_of(alloc: Global, names: &Names, parts: &[&str]) -> Result<Class, Fail> {
    let bytes = bytes_of(alloc, parts)?;
    Ok(classify(&secret(), names, near(5000), &bytes, 1_000_000))
}

/// Adds a route with this name.
fn added(alloc: Global, names: &mut Names, name: &str) -> Result<Result<usize, OpenFault>, Fail> {
    let one = entry(alloc, name)?;
    Ok(names.add(alloc, &one))
}

/// Hides a visible route.
fn hide(rt: &impl Abort, names: &mut Names, r: usize) {
    assert!(rt; names.shows(r));
    names.hide(r);
}

/// Packets for a session of the first route and for one of the third.
const TO_SESSIONS: [&str; 2] = [
    "80050000 00000000 00000000 00100000",
    "80050000 00000000 00000000 00300000",
];

const STUDIO_ASKED: [&str; 6] = [HEADER, CONCLUSION, COOKIE_0, ADDRESS, HSREQ, PUBLISH_STUDIO];

/// A hidden route receives no datagrams. Its name may be reused; its index isn't.
#[test]
fn routes_are_hidden_and_added(rt: HostRuntime) -> Result<(), Fail> {
    let alloc = rt.alloc();
    let dropped = Class::Dropped(Cause::UnknownId);
    let mut names = opened(alloc, &["studio", "files"])?;
    assert_eq!(rt; added(alloc, &mut names, "studio")?, Err(OpenFault::Names));
    assert_eq!(rt; class_of(alloc, &names, &STUDIO_ASKED)?, Class::Route(0));
    hide(&rt, &mut names, 0);
    assert_eq!(rt; class_of(alloc, &names, &TO_SESSIONS[..1])?, dropped);
    assert_refused(&rt, class_of(alloc, &names, &STUDIO_ASKED)?, "000003ea")?;
    assert_eq!(rt; added(alloc, &mut names, "files")?, Err(OpenFault::Names));
    assert_eq!(rt; added(alloc, &mut names, "studio")?, Ok(2));
    assert_eq!(rt; class_of(alloc, &names, &STUDIO_ASKED)?, Class::Route(2));
    assert_eq!(rt; class_of(alloc, &names, &TO_SESSIONS[..1])?, dropped);
    assert_eq!(rt;
        class_of(alloc, &names, &TO_SESSIONS[1..])?,
        Class::Route(2)
    );
    Ok(())
}

/// If an allocation fails, nothing is added, and the next attempt is unaffected.
#[test]
fn refused_adding_changes_nothing(rt: HostRuntime) -> Result<(), Fail> {
    let alloc = rt.alloc();
    let mut names = opened(alloc, &["studio"])?;
    let one = entry(alloc, "files")?;
    let first = names.add(alloc, &one);
    if first.is_err() {
        assert_eq!(rt; first, Err(OpenFault::OutOfMemory));
        assert!(rt; !names.shows(1));
        assert_eq!(rt; names.add(alloc, &one), Ok(1));
    }
    assert!(rt; names.shows(1));
    Ok(())
}

#[test]
fn causes_have_their_numbers(rt: HostRuntime) -> Result<(), Fail> {
    for (cause, number) in [
        (Cause::Packet, 1),
        (Cause::UnknownId, 2),
        (Cause::NotHandshake, 3),
        (Cause::Handshake, 4),
        (Cause::WrongKind, 5),
        (Cause::WrongCookie, 6),
        (Cause::NotAllowed, 7),
    ] {
        assert_eq!(rt; cause.number(), number);
    }
    Ok(())
}
