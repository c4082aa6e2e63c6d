//! Captured handshakes of callers, answers, and bytes with each fault.

use crate::{
    AnswerKind, CongestionText, HsAnswer, HsFault, HsKind, HsReq, RefusalCode, congestion, read,
    stream_id, write, write_with_keys,
};
use arrayvec::ArrayVec;
use srt_types::Mode;
use std::alloc::Global;
use std::process::Abort;
use std::test::Fail;

const CONCLUSION: &str =
    "00000005 00000005 63cf2f33 000005dc 00002000 ffffffff 1c2c57f4 cafebabe 0100007f 00000000 00000000 00000000";

const HSREQ: &str = "00010003 00010501 000000bf 00780000";

const STUDIO: &str = "00050002 64757473 00006f69";

fn push_words(alloc: Global, bytes: &mut Vec<u8>, words: &str) -> Result<(), Fail> {
    for word in words.split(' ') {
        bytes.extend_from_slice(&hex::decode(alloc, word)?)?;
    }
    Ok(())
}

fn bytes_of(alloc: Global, parts: &[&str]) -> Result<Vec<u8>, Fail> {
    let mut bytes = Vec::new(alloc);
    for part in parts {
        push_words(alloc, &mut bytes, part)?;
    }
    Ok(bytes)
}

fn fault_of(alloc: Global, parts: &[&str]) -> Result<HsFault, Fail> {
    let bytes = bytes_of(alloc, parts)?;
    match read(&bytes) {
        Ok(_) => Err(Fail::from("a handshake")),
        Err(fault) => Ok(fault),
    }
}

#[test]
fn induction_is_read(rt: HostRuntime) -> Result<(), Fail> {
    let bytes = bytes_of(
        rt.alloc(),
        &[
            "00000004 00000002 63cfb139 000005dc 00002000 00000001 17f5756c 00000000 0100007f 00000000 00000000 00000000",
            "ffffff",
        ],
    )?;
    let hs = read(&bytes).ok().ok_or("a handshake")?;
    assert_eq!(rt; hs.version, 4);
    assert_eq!(rt; hs.encryption, 0);
    assert_eq!(rt; hs.extension, 2);
    assert_eq!(rt; hs.initial, 0x63cf_b139);
    assert_eq!(rt; hs.mtu, 1500);
    assert_eq!(rt; hs.window, 8192);
    assert_eq!(rt; hs.kind, HsKind::Induction);
    assert_eq!(rt; hs.id, 0x17f5_756c);
    assert_eq!(rt; hs.cookie, 0);
    assert!(rt; hs.blocks.hsreq.is_none());
    Ok(())
}

#[test]
fn publisher_is_read(rt: HostRuntime) -> Result<(), Fail> {
    let bytes = bytes_of(
        rt.alloc(),
        &[
            CONCLUSION,
            HSREQ,
            "00050006 3a3a2123 74733d72 6f696475 703d6d2c 696c6275 00006873",
        ],
    )?;
    let hs = read(&bytes).ok().ok_or("a handshake")?;
    assert_eq!(rt; hs.kind, HsKind::Conclusion);
    assert_eq!(rt; hs.extension, 5);
    assert_eq!(rt; hs.cookie, 0xcafe_babe);
    let wanted = HsReq {
        version: 0x0001_0501,
        flags: 0xbf,
        receiver_ms: 120,
        sender_ms: 0,
    };
    assert_eq!(rt; hs.blocks.hsreq, Some(wanted));
    assert!(rt; !hs.blocks.has_kmreq && !hs.blocks.has_filter && !hs.blocks.has_group);
    let mut text = [0; 512];
    let len = stream_id(&hs, &mut text).ok_or("a Stream ID")?;
    assert_eq!(rt; &text[..len], b"#!::r=studio,m=publish".as_slice());
    assert!(rt; congestion(&hs).is_none());
    Ok(())
}

/// Asserts the text of a conclusion's Stream ID block.
fn assert_stream_id(
    rt: &(impl AllocGlobal + Abort),
    block: &str,
    wanted: &str,
) -> Result<(), Fail> {
    let bytes = bytes_of(rt.alloc(), &[CONCLUSION, HSREQ, block])?;
    let hs = read(&bytes).ok().ok_or("a handshake")?;
    let mut text = [0; 512];
    let len = stream_id(&hs, &mut text).ok_or("a Stream ID")?;
    assert_eq!(rt; &text[..len], wanted.as_bytes());
    Ok(())
}

#[test]
fn subscribers_are_read(rt: HostRuntime) -> Result<(), Fail> {
    assert_stream_id(&rt, STUDIO, "studio")?;
    assert_stream_id(
        &rt,
        "00050006 3a3a2123 74733d72 6f696475 723d6d2c 65757165 00007473",
        "#!::r=studio,m=request",
    )?;
    assert_stream_id(&rt, "00050001 00636261", "abc")?;
    let bytes = bytes_of(rt.alloc(), &[CONCLUSION, HSREQ])?;
    let hs = read(&bytes).ok().ok_or("a handshake")?;
    assert!(rt; stream_id(&hs, &mut [0; 512]).is_none());
    Ok(())
}

#[test]
fn buffer_mode_is_read(rt: HostRuntime) -> Result<(), Fail> {
    let bytes = bytes_of(
        rt.alloc(),
        &[
            CONCLUSION,
            "00010003 00010501 000000e4 00000000",
            STUDIO,
            "00060001 656c6966",
        ],
    )?;
    let hs = read(&bytes).ok().ok_or("a handshake")?;
    let text = congestion(&hs).ok_or("a CONGESTION block")?;
    assert_eq!(rt; text.first, 0x656c_6966);
    assert!(rt; text.others.is_empty());
    Ok(())
}

#[test]
fn unread_blocks_are_seen(rt: HostRuntime) -> Result<(), Fail> {
    let key =
        "0003000e 12202902 00000000 02000204 00000000 00000000 00000000 00000000 00000000 00000000 00000000 00000000 00000000 00000000 00000000";
    let bytes = bytes_of(rt.alloc(), &[CONCLUSION, HSREQ, STUDIO, key])?;
    let hs = read(&bytes).ok().ok_or("a handshake")?;
    assert!(rt; hs.blocks.has_kmreq && !hs.blocks.has_filter && !hs.blocks.has_group);
    let bytes = bytes_of(
        rt.alloc(),
        &[
            CONCLUSION,
            "00070001 00636566",
            "00000000",
            "00020001 00000000",
            HSREQ,
        ],
    )?;
    let hs = read(&bytes).ok().ok_or("a handshake")?;
    assert!(rt; hs.blocks.has_filter && hs.blocks.hsreq.is_some());
    let bytes = bytes_of(
        rt.alloc(),
        &[CONCLUSION, HSREQ, "00080002 00000001 00000002"],
    )?;
    let hs = read(&bytes).ok().ok_or("a handshake")?;
    assert!(rt; hs.blocks.has_group && !hs.blocks.has_filter);
    Ok(())
}

#[test]
fn faults_are_reported(rt: HostRuntime) -> Result<(), Fail> {
    let short =
        "00000005 00000005 63cf2f33 000005dc 00002000 ffffffff 1c2c57f4 cafebabe 0100007f 00000000 00000000 000000";
    assert_eq!(rt; fault_of(rt.alloc(), &[short])?, HsFault::Short);
    assert_eq!(rt;
        fault_of(rt.alloc(), &[CONCLUSION, HSREQ, "000500"])?,
        HsFault::TruncatedExtension
    );
    assert_eq!(rt;
        fault_of(rt.alloc(), &[CONCLUSION, HSREQ, "00050002 64757473"])?,
        HsFault::TruncatedExtension
    );
    assert_eq!(rt;
        fault_of(rt.alloc(), &[CONCLUSION, "00010002 00010501 000000bf"])?,
        HsFault::BadLength
    );
    assert_eq!(rt;
        fault_of(rt.alloc(), &[CONCLUSION, "00060000"])?,
        HsFault::BadLength
    );
    assert_eq!(rt;
        fault_of(
            rt.alloc(),
            &[
                CONCLUSION,
                "00060005 656c6966 00000000 00000000 00000000 00000000"
            ]
        )?,
        HsFault::BadLength
    );
    assert_eq!(rt;
        fault_of(rt.alloc(), &[CONCLUSION, HSREQ, HSREQ])?,
        HsFault::Repeated
    );
    assert_eq!(rt;
        fault_of(rt.alloc(), &[CONCLUSION, STUDIO, STUDIO])?,
        HsFault::Repeated
    );
    assert_eq!(rt;
        fault_of(
            rt.alloc(),
            &[CONCLUSION, "00060001 656c6966 00060001 656c6966"]
        )?,
        HsFault::Repeated
    );
    Ok(())
}

#[test]
fn long_stream_ids(rt: HostRuntime) -> Result<(), Fail> {
    let eight = "61616161 61616161 61616161 61616161 61616161 61616161 61616161 61616161";
    let half = [eight; 8];
    let mut bytes = bytes_of(rt.alloc(), &[CONCLUSION, "00050080"])?;
    bytes.extend_from_slice(&bytes_of(rt.alloc(), &half)?)?;
    bytes.extend_from_slice(&bytes_of(rt.alloc(), &half)?)?;
    let hs = read(&bytes).ok().ok_or("a handshake")?;
    let mut text = [0; 512];
    assert_eq!(rt; stream_id(&hs, &mut text), Some(512));
    assert_eq!(rt; text, [b'a'; 512]);
    let mut bytes = bytes_of(rt.alloc(), &[CONCLUSION, "00050081 61616161"])?;
    bytes.extend_from_slice(&bytes_of(rt.alloc(), &half)?)?;
    bytes.extend_from_slice(&bytes_of(rt.alloc(), &half)?)?;
    assert_eq!(rt; read(&bytes).err(), Some(HsFault::BadLength));
    Ok(())
}

#[test]
fn the_first_fault_counts(rt: HostRuntime) -> Result<(), Fail> {
    // A block past the end takes precedence over a bad length, and a bad length over a repeated block.
    assert_eq!(rt;
        fault_of(rt.alloc(), &[CONCLUSION, "00010004 00010501 000000bf"])?,
        HsFault::TruncatedExtension
    );
    assert_eq!(rt;
        fault_of(
            rt.alloc(),
            &[CONCLUSION, HSREQ, "00010002 00010501 000000bf"]
        )?,
        HsFault::BadLength
    );
    // The first fault from the left is returned.
    assert_eq!(rt;
        fault_of(rt.alloc(), &[CONCLUSION, HSREQ, HSREQ, "00060000"])?,
        HsFault::Repeated
    );
    assert_eq!(rt;
        fault_of(rt.alloc(), &[CONCLUSION, "00060000", HSREQ, "00"])?,
        HsFault::BadLength
    );
    Ok(())
}

fn written(alloc: Global, initial: u32, what: AnswerKind) -> Result<Vec<u8>, Fail> {
    let mut out = [0xff; 84];
    let len = write(&HsAnswer { initial, what }, &mut out);
    let mut bytes = Vec::new(alloc);
    bytes.extend_from_slice(&out[..len])?;
    Ok(bytes)
}

/// Returns the answer to a conclusion that requests buffer mode with this CONGESTION block.
fn buffer_answer(congestion: CongestionText) -> AnswerKind {
    AnswerKind::Conclusion {
        mtu: 1500,
        window: 32,
        id: 0x0020_0000,
        mode: Mode::Buffer,
        recv_ms: 0,
        send_ms: 0,
        congestion: Some(congestion),
    }
}

/// The bytes of that answer before the CONGESTION block.
const BUFFER_ANSWER: &str =
    "00000005 00000005 00000005 000005dc 00000020 ffffffff 00200000 00000000 00000000 00000000 00000000 00000000 00020003 00010500 00000074 00000000";

#[test]
fn answers_are_written(rt: HostRuntime) -> Result<(), Fail> {
    let wanted =
        "00000005 00004a17 00000005 000005dc 00002000 00000001 00000001 89abcdef 00000000 00000000 00000000 00000000";
    assert_eq!(rt;
        written(rt.alloc(), 5, AnswerKind::Induction(0x89ab_cdef))?,
        bytes_of(rt.alloc(), &[wanted])?
    );
    let wanted =
        "00000005 00000000 00000009 000005dc 00002000 000003ea 00000001 00000000 00000000 00000000 00000000 00000000";
    assert_eq!(rt;
        written(rt.alloc(), 9, AnswerKind::Refusal(RefusalCode::Peer))?,
        bytes_of(rt.alloc(), &[wanted])?
    );
    let live = AnswerKind::Conclusion {
        mtu: 1500,
        window: 1024,
        id: 0x0010_0000,
        mode: Mode::Live,
        recv_ms: 200,
        send_ms: 120,
        congestion: None,
    };
    let wanted =
        "00000005 00000001 00000005 000005dc 00000400 ffffffff 00100000 00000000 00000000 00000000 00000000 00000000 00020003 00010500 0000003f 00c80078";
    assert_eq!(rt;
        written(rt.alloc(), 5, live)?,
        bytes_of(rt.alloc(), &[wanted])?
    );
    let one_word = CongestionText {
        first: 0x656c_6966,
        others: ArrayVec::new(),
    };
    assert_eq!(rt;
        written(rt.alloc(), 5, buffer_answer(one_word))?,
        bytes_of(rt.alloc(), &[BUFFER_ANSWER, "00060001 656c6966"])?
    );
    Ok(())
}

/// A CONGESTION block of four words is read, and the answer repeats it unchanged.
#[test]
fn four_words_of_congestion(rt: HostRuntime) -> Result<(), Fail> {
    let block = "00060004 34333231 38373635 63626139 66656463";
    let bytes = bytes_of(rt.alloc(), &[CONCLUSION, HSREQ, STUDIO, block])?;
    let hs = read(&bytes).ok().ok_or("a handshake")?;
    let text = congestion(&hs).ok_or("a CONGESTION block")?;
    assert_eq!(rt; text.first, 0x3433_3231);
    assert_eq!(rt;
        text.others.as_slice(),
        [0x3837_3635, 0x6362_6139, 0x6665_6463].as_slice()
    );
    assert_eq!(rt;
        written(rt.alloc(), 5, buffer_answer(text))?,
        bytes_of(rt.alloc(), &[BUFFER_ANSWER, block])?
    );
    Ok(())
}

fn code_of(reason: RefusalCode) -> [u8; 2] {
    let answer = HsAnswer {
        initial: 0,
        what: AnswerKind::Refusal(reason),
    };
    let mut out = [0; 84];
    write(&answer, &mut out);
    [out[22], out[23]]
}

#[test]
fn reasons_have_their_codes(rt: HostRuntime) {
    assert_eq!(rt; code_of(RefusalCode::Resource), [0x03, 0xeb]);
    assert_eq!(rt; code_of(RefusalCode::Rogue), [0x03, 0xec]);
    assert_eq!(rt; code_of(RefusalCode::Version), [0x03, 0xf0]);
    assert_eq!(rt; code_of(RefusalCode::BadSecret), [0x03, 0xf2]);
    assert_eq!(rt; code_of(RefusalCode::Unsecure), [0x03, 0xf3]);
    assert_eq!(rt; code_of(RefusalCode::MessageApi), [0x03, 0xf4]);
    assert_eq!(rt; code_of(RefusalCode::Filter), [0x03, 0xf6]);
    assert_eq!(rt; code_of(RefusalCode::Group), [0x03, 0xf7]);
}

/// The flags of callers that send periodic NAKs and of such that don't.
#[test]
fn periodic_naks(rt: HostRuntime) -> Result<(), Fail> {
    let rows = [
        (0xbf, true),
        (0xaf, false),
        (0x10, true),
        (0xffff_ffef, false),
        (0, false),
    ];
    for at in 0..rows.len() {
        let (flags, expected) = rows[at];
        let req = HsReq {
            version: 0x0001_0500,
            flags,
            receiver_ms: 120,
            sender_ms: 120,
        };
        assert_eq!(rt; req.has_periodic_nak(), expected, "{at}");
    }
    Ok(())
}

/// The contents of a KMREQ block with a key of 16 bytes.
const KEYS: &str =
    "12202901 00000000 02000200 00000404 00112233 44556677 8899aabb ccddeeff 097ad2a2 96802dd0 3b3cad77 8b2ef5ec 61782692 f95549e2";

/// The contents of one with a key of 24 bytes.
const LONG_KEYS: &str =
    "12202901 00000000 02000200 00000406 ffeeddcc bbaa9988 77665544 33221100 55d5c0a0 4098090a a97287b4 eba8443d 46d8ba88 121ed818 7cffdf8e 770d9860";

fn written_with(
    alloc: Global,
    initial: u32,
    what: AnswerKind,
    message: &str,
) -> Result<Vec<u8>, Fail> {
    let message = bytes_of(alloc, &[message])?;
    if message.len() < 16 || message.len() > 104 {
        return Err(Fail::from("a message of another length"));
    }
    let mut out = [0xff; 192];
    let len = write_with_keys(&HsAnswer { initial, what }, &message, &mut out);
    let mut bytes = Vec::new(alloc);
    bytes.extend_from_slice(&out[..len])?;
    Ok(bytes)
}

/// Returns the answer to a conclusion for the session with this socket ID, in live mode.
fn live_answer(id: u32, congestion: Option<CongestionText>) -> AnswerKind {
    AnswerKind::Conclusion {
        mtu: 1500,
        window: 1024,
        id,
        mode: Mode::Live,
        recv_ms: 120,
        send_ms: 120,
        congestion,
    }
}

/// The HSRSP block of that answer.
const HSRSP: &str = "00020003 00010500 0000003f 00780078";

const ZEROS: &str = "00000000 00000000 00000000 00000000 00000000";

#[test]
fn answers_repeat_the_keys(rt: HostRuntime) -> Result<(), Fail> {
    let alloc = rt.alloc();
    let front = "00000005 00020003 00000005 000005dc 00000400 ffffffff 00100000";
    assert_eq!(rt;
        written_with(alloc, 5, live_answer(0x0010_0000, None), KEYS)?,
        bytes_of(alloc, &[front, ZEROS, HSRSP, "0004000e", KEYS])?
    );
    let front = "00000005 00030003 00000009 000005dc 00000400 ffffffff 00100001";
    assert_eq!(rt;
        written_with(alloc, 9, live_answer(0x0010_0001, None), LONG_KEYS)?,
        bytes_of(alloc, &[front, ZEROS, HSRSP, "00040010", LONG_KEYS])?
    );
    // the congestion text comes last
    let live = CongestionText {
        first: 0x6576_696c,
        others: ArrayVec::new(),
    };
    let front = "00000005 00020007 00000005 000005dc 00000400 ffffffff 00100000";
    assert_eq!(rt;
        written_with(alloc, 5, live_answer(0x0010_0000, Some(live)), KEYS)?,
        bytes_of(
            alloc,
            &[front, ZEROS, HSRSP, "0004000e", KEYS, "00060001 6576696c"]
        )?
    );
    let refusal = "00000005 00000000 00000009 000005dc 00002000 000003f3 00000001";
    assert_eq!(rt;
        written_with(alloc, 9, AnswerKind::Refusal(RefusalCode::Unsecure), KEYS)?,
        bytes_of(alloc, &[refusal, ZEROS])?
    );
    Ok(())
}
