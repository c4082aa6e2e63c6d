//! Transcripts of single lines, and of readers and writers that fail. The expected words were written by hand from
//! docs/PROTOCOL.md and the draft; `tests/explain` has more lines.

use crate::{TranscriptFault, transcribe};
use arrayvec::ArrayVec;
use srt_replay::{CountedReader, CountedWriter};
use std::process::Abort;
use std::test::Fail;

/// Asserts the transcript of a tape and an output, and its result.
fn assert_transcript(
    rt: &(impl AllocGlobal + Abort),
    tape: &str,
    output: &str,
    end: Result<(), TranscriptFault>,
    text: &str,
) {
    let mut tape = CountedReader::new(tape.as_bytes());
    let mut output = CountedReader::new(output.as_bytes());
    let mut writer = CountedWriter::new(Vec::new(rt.alloc()));
    assert_eq!(rt; transcribe(&mut tape, &mut output, &mut writer), end);
    assert_eq!(rt; writer.get_ref().as_slice(), text.as_bytes());
}

/// Asserts the words of a datagram that arrives, given by its hexadecimal digits.
fn assert_datagram(rt: &(impl AllocGlobal + Abort), digits: &str, words: &str) -> Result<(), Fail> {
    let tape = format!(in rt.alloc(); "A 0 00000000000000000000ffff7f000001 1 {digits}\n")?;
    let text = format!(in rt.alloc(); "      1  0.000000 s  from 127.0.0.1:1  {words}\n")?;
    assert_transcript(rt, &tape, "", Ok(()), &text);
    Ok(())
}

#[test]
fn each_event_has_its_line(rt: HostRuntime) {
    assert_transcript(
        &rt,
        "T 0 1000001\nU 510\nS 0\nO a\"b buffer 1 2 3 4 4294967295\nC 1 62\n",
        "accepted 0\nidle\nnone\nopen fault 1\nclosed 1\nmore\n",
        Ok(()),
        "      1  1.000001 s  tick of route 0
           = accepted 0
      2  turn of route 510
           = idle
      3  send of route 0
           = none
      4  opening of route \"a\"b\": buffer, latency 1 ms, buffer 2, sessions 3, inbox 4, outbox 4294967295
           = open fault 1
      5  0.000062 s  closing of route 1
           = closed 1
           = more
",
    );
}

#[test]
fn the_first_line_that_is_no_event_is_the_last(rt: HostRuntime) {
    assert_transcript(&rt, "", "", Ok(()), "");
    assert_transcript(
        &rt,
        "U 0\nU 511\nU 1\n",
        "moved\n",
        Err(TranscriptFault::NoEvent(2)),
        "      1  turn of route 0\n           = moved\n      2  no event: 'U 511\\n'\n",
    );
    assert_transcript(
        &rt,
        "U 511",
        "",
        Err(TranscriptFault::NoEvent(1)),
        "      1  no event: 'U 511'\n",
    );
    assert_transcript(
        &rt,
        "it's\t\\\r\u{e9}\n",
        "tape fault 1\nleft out\n",
        Err(TranscriptFault::NoEvent(1)),
        "      1  no event: \"it's\\t\\\\\\r\\xc3\\xa9\\n\"\n           = tape fault 1\n",
    );
}

#[test]
fn lines_of_an_output_are_explained(rt: HostRuntime) {
    assert_transcript(
        &rt,
        "",
        "answer 80010000000000000000000000000000\nsent 00000000000000000000000000000001 65536 00\ndropped 5\ndropped 8\nfull 3",
        Ok(()),
        "           = answer  KEEPALIVE; timestamp 0, to 00000000
           = sent 00000000000000000000000000000001 65536 00 (no line of a replay)
           = dropped 5 (neither INDUCTION nor CONCLUSION)
           = dropped 8 (no such cause)
           = full 3
",
    );
}

#[test]
fn control_packets_are_explained(rt: HostRuntime) -> Result<(), Fail> {
    let end = "0000000000000005ffffffff";
    for (kind, words) in [
        ("8001", "KEEPALIVE"),
        ("8002", "ACK"),
        ("8004", "congestion warning"),
        ("8005", "SHUTDOWN"),
        ("8006", "ACKACK 0"),
        ("8007", "DROPREQ"),
        ("8008", "PEERERROR"),
        ("8009", "unknown control type 9"),
        ("ffff", "user-defined"),
    ] {
        let digits = format!(in rt.alloc(); "{kind}0000{end}")?;
        let text = format!(in rt.alloc(); "{words}; timestamp 5, to ffffffff")?;
        assert_datagram(&rt, &digits, &text)?;
    }
    Ok(())
}

#[test]
fn contents_of_packets_are_explained(rt: HostRuntime) -> Result<(), Fail> {
    assert_datagram(
        &rt,
        "8002000000000000000000000000000080000009",
        "Light ACK: all below 9; timestamp 0, to 00000000",
    )?;
    assert_datagram(
        &rt,
        "8003000000000000000000000000000000000005800000078000000880000009",
        "NAK 5, 7-8, 9-?; timestamp 0, to 00000000",
    )?;
    assert_datagram(
        &rt,
        "80070000000000030000000000000000800000057fffffff",
        "DROPREQ message 3, 5-2147483647; timestamp 0, to 00000000",
    )?;
    assert_datagram(
        &rt,
        "0000000708000001000000000000000000",
        "DATA 7 message 1 encrypted (KK 1), 1 byte 00; timestamp 0, to 00000000",
    )?;
    assert_datagram(
        &rt,
        "00000007000000010000000000000000",
        "no packet: DATA with no payload; timestamp 0, to 00000000",
    )
}

#[test]
fn handshakes_are_explained(rt: HostRuntime) -> Result<(), Fail> {
    let header = "80000000000000000000000000000000";
    let fields = "00000005000300ab00000001000005dc00002000";
    let others = "000000070000000900000000000000000000000000000000";
    let digits = format!(in rt.alloc(); "{header}{fields}000003ef{others}")?;
    assert_datagram(
        &rt,
        &digits,
        "HANDSHAKE refused 1007 version 5, encryption 3, extension ab, initial 1, MTU 1500, window 8192, socket 00000007, cookie 00000009; timestamp 0, to 00000000",
    )?;
    let digits = format!(in rt.alloc(); "{header}{fields}000003f2{others}")?;
    assert_datagram(
        &rt,
        &digits,
        "HANDSHAKE refused 1010 BADSECRET version 5, encryption 3, extension ab, initial 1, MTU 1500, window 8192, socket 00000007, cookie 00000009; timestamp 0, to 00000000",
    )?;
    let blocks = "0001000300010401000001820000000000050001000000620008000900";
    let digits = format!(in rt.alloc(); "{header}{fields}ffffffff{others}{blocks}")?;
    assert_datagram(
        &rt,
        &digits,
        "HANDSHAKE CONCLUSION version 5, encryption 3, extension ab, initial 1, MTU 1500, window 8192, socket 00000007, cookie 00000009, HSREQ SRT 1.4.1 (TSBPDRCV PACKET_FILTER 100) receiver 0 ms sender 0 ms, Stream ID \"b\", block 8 cut short; timestamp 0, to 00000000",
    )?;
    let digits = format!(in rt.alloc(); "{header}00")?;
    assert_datagram(
        &rt,
        &digits,
        "HANDSHAKE of 1 byte; timestamp 0, to 00000000",
    )
}

#[test]
fn the_longest_explanation_is_whole(rt: HostRuntime) -> Result<(), Fail> {
    let mut tape = String::from_str(
        rt.alloc(),
        "A 0 00000000000000000000ffff7f000001 1 800000000000000000000000000000000000000500000000000000000000000000000000ffffffff000000000000000000000000000000000000000000000000",
    )?;
    for _ in 0..352 {
        tape.push_str("ffff0000")?;
    }
    let mut reader = CountedReader::new(tape.as_bytes());
    let mut output = CountedReader::new(b"".as_slice());
    let mut writer = CountedWriter::new(Vec::new(rt.alloc()));
    assert_eq!(&rt; transcribe(&mut reader, &mut output, &mut writer), Ok(()));
    let text = writer.get_ref().as_slice();
    assert!(&rt; text.ends_with(b", block 65535 of 0 bytes; timestamp 0, to 00000000\n"));
    Ok(())
}

#[test]
fn readers_and_writers_that_fail_end_it(rt: HostRuntime) {
    let nothing = b"".as_slice();
    let line = b"U 0\n".as_slice();
    let mut writer = CountedWriter::new(ArrayVec::<u8, 40>::new());
    assert_eq!(&rt;
        transcribe(
            &mut CountedReader::within(line, 0),
            &mut CountedReader::new(nothing),
            &mut writer
        ),
        Err(TranscriptFault::Read)
    );
    assert_eq!(&rt;
        transcribe(
            &mut CountedReader::new(line),
            &mut CountedReader::within(nothing, 0),
            &mut writer
        ),
        Err(TranscriptFault::Read)
    );
    assert_eq!(&rt;
        writer.get_ref().as_slice(),
        b"      1  turn of route 0\n".as_slice()
    );
    assert_eq!(&rt;
        transcribe(
            &mut CountedReader::new(line),
            &mut CountedReader::new(nothing),
            &mut writer
        ),
        Err(TranscriptFault::Write)
    );
    assert_eq!(&rt;
        writer.get_ref().as_slice(),
        b"      1  turn of route 0\n      1  turn o".as_slice()
    );
}
