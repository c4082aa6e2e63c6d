//! How replays end.

use super::devices::{Breaking, Dripping, Failing, Narrow, Repeating, Stuck};
use super::{RIGHT, config_of};
use crate::{Brought, CountedReader, CountedWriter, ReplayFault, Tried, replay, replay_over};
use srt_config::Config;
use srt_hub::SrtGateway;
use std::alloc::Global;
use std::io::{BufRead, BufReader, Write};
use std::process::Abort;
use std::test::Fail;

const TWO_LINES: &[u8] = b"A 0 00000000000000000000ffff7f000001 5000 \n\
A 0 00000000000000000000ffff7f000001 5000 80010000000000000000000000000000\n";

fn narrow(alloc: Global, room: usize) -> Narrow {
    Narrow {
        taken: Vec::new(alloc),
        room,
        is_ready: false,
        flushes: 0,
        interruptions: 0,
        flush_fails: false,
    }
}

/// How a replay over the gateway of a configuration ends.
fn end_of<B: BufRead, W: Write>(
    alloc: Global,
    config: &Config,
    reader: &mut CountedReader<B>,
    writer: &mut CountedWriter<W>,
) -> Result<(), ReplayFault> {
    replay(alloc, config, reader, writer)
}

/// Asserts the end of a replay whose reader fails in its second line, and the number of flushes so far.
fn assert_failed<B: BufRead + Drop>(
    rt: &(impl AllocGlobal + Abort),
    config: &Config,
    reader: &mut CountedReader<B>,
    writer: &mut CountedWriter<Narrow>,
    flushes: u32,
) {
    assert_eq!(rt;
        end_of(rt.alloc(), config, reader, writer),
        Err(ReplayFault::Read)
    );
    assert_eq!(rt;
        writer.get_ref().taken.as_slice(),
        b"dropped 1\n".as_slice()
    );
    assert_eq!(rt; writer.get_ref().flushes, flushes);
    assert_eq!(rt; reader.brought(), Brought::Failure);
    assert_eq!(rt; reader.left(), (1 << 33) - 122);
}

#[test]
fn a_reader_that_fails_in_a_line_ends_the_replay(rt: HostRuntime) -> Result<(), Fail> {
    let config = config_of(&rt, RIGHT)?;
    let reader = Dripping {
        bytes: &TWO_LINES[..60],
        is_ready: false,
        fails: true,
    };
    let mut reader = CountedReader::new(BufReader::with_capacity(rt.alloc(), 7, reader)?);
    let mut writer = CountedWriter::new(narrow(rt.alloc(), 10));
    // It is flushed, and not called again.
    assert_failed(&rt, &config, &mut reader, &mut writer, 1);
    assert_failed(&rt, &config, &mut reader, &mut writer, 2);
    Ok(())
}

/// The answers to the two lines.
const BOTH: &str = "dropped 1\ndropped 3\n";

/// What is written before the reader fails, after 0, 1, 2 .. reads of 16 bytes: the answers to the lines that had been
/// read whole, the first of 43 bytes and the second of 75.
const AFTER_READS: [&str; 9] = [
    "",
    "",
    "",
    "dropped 1\n",
    "dropped 1\n",
    "dropped 1\n",
    "dropped 1\n",
    "dropped 1\n",
    BOTH,
];

/// Asserts the end of a replay whose reader fails after this number of reads, and what it writes.
fn assert_broken(
    rt: &(impl AllocGlobal + Abort),
    config: &Config,
    reads: u32,
    end: Result<(), ReplayFault>,
    text: &str,
) -> Result<(), Fail> {
    let reader = Breaking {
        bytes: TWO_LINES,
        reads,
    };
    let mut reader = CountedReader::new(BufReader::with_capacity(rt.alloc(), 64, reader)?);
    let mut writer = CountedWriter::new(Vec::new(rt.alloc()));
    assert_eq!(rt; end_of(rt.alloc(), config, &mut reader, &mut writer), end);
    assert_eq!(rt; writer.get_ref().as_slice(), text.as_bytes());
    Ok(())
}

#[test]
fn a_reader_may_fail_at_each_read(rt: HostRuntime) -> Result<(), Fail> {
    let config = config_of(&rt, RIGHT)?;
    for reads in 0..9 {
        let text = AFTER_READS[reads as usize];
        assert_broken(&rt, &config, reads, Err(ReplayFault::Read), text)?;
    }
    // The ninth read finds the end, and no other is made.
    assert_broken(&rt, &config, 9, Ok(()), BOTH)
}

/// What is written before the writer fails, after 0, 1, 2 .. calls: three of them write an answer, and the last one is a
/// flush.
const AFTER_CALLS: [&str; 7] = [
    "",
    "drop",
    "dropped ",
    "dropped 1\n",
    "dropped 1\ndrop",
    "dropped 1\ndropped ",
    BOTH,
];

/// Asserts the end of a replay whose writer fails after this number of calls, and what it writes. After a call that
/// failed none is made.
fn assert_unwritten(
    rt: &(impl AllocGlobal + Abort),
    config: &Config,
    calls: u32,
    end: Result<(), ReplayFault>,
    text: &str,
) -> Result<(), Fail> {
    let mut reader = CountedReader::new(TWO_LINES);
    let mut writer = CountedWriter::new(Failing {
        taken: Vec::new(rt.alloc()),
        calls,
        failed: 0,
    });
    assert_eq!(rt; end_of(rt.alloc(), config, &mut reader, &mut writer), end);
    let writer = writer.get_ref();
    assert_eq!(rt; writer.taken.as_slice(), text.as_bytes());
    assert_eq!(rt; writer.failed, u32::from(end.is_err()));
    Ok(())
}

#[test]
fn a_writer_may_fail_at_each_write_and_flush(rt: HostRuntime) -> Result<(), Fail> {
    let config = config_of(&rt, RIGHT)?;
    for calls in 0..7 {
        let text = AFTER_CALLS[calls as usize];
        assert_unwritten(&rt, &config, calls, Err(ReplayFault::Write), text)?;
    }
    // The seventh call is the flush, and no other is made.
    assert_unwritten(&rt, &config, 7, Ok(()), BOTH)
}

#[test]
fn a_flush_that_fails_after_a_failed_read_counts(rt: HostRuntime) -> Result<(), Fail> {
    let config = config_of(&rt, RIGHT)?;
    let reader = Breaking {
        bytes: TWO_LINES,
        reads: 3,
    };
    let mut reader = CountedReader::new(BufReader::with_capacity(rt.alloc(), 64, reader)?);
    let mut writer = CountedWriter::new(Failing {
        taken: Vec::new(rt.alloc()),
        calls: 3,
        failed: 0,
    });
    let end = end_of(rt.alloc(), &config, &mut reader, &mut writer);
    assert_eq!(rt; end, Err(ReplayFault::Write));
    assert_eq!(rt;
        writer.get_ref().taken.as_slice(),
        b"dropped 1\n".as_slice()
    );
    Ok(())
}

/// What a replay writes, its result, and the result of its last read.
#[derive(Clone, Copy)]
struct Ended {
    text: &'static str,
    result: Result<(), ReplayFault>,
    brought: Brought,
}

/// Asserts the end of a replay that uses all of this number of reads.
fn assert_within<B: BufRead + Drop>(
    rt: &(impl AllocGlobal + Abort),
    reader: B,
    reads: u64,
    ended: &Ended,
) -> Result<(), Fail> {
    let config = config_of(rt, RIGHT)?;
    let Ok(mut hub) = SrtGateway::open(rt.alloc(), config.secret, config.entries.as_slice()) else {
        return Err(Fail::from("a gateway"));
    };
    let mut writer = CountedWriter::new(Vec::new(rt.alloc()));
    let mut reader = CountedReader::within(reader, reads);
    let result = replay_over(rt.alloc(), &mut hub, &mut reader, &mut writer);
    assert_eq!(rt; writer.get_ref().as_slice(), ended.text.as_bytes());
    assert_eq!(rt; result, ended.result);
    assert_eq!(rt; (reader.brought(), reader.left()), (ended.brought, 0));
    Ok(())
}

#[test]
fn an_interrupted_read_counts(rt: HostRuntime) -> Result<(), Fail> {
    let reader = Dripping {
        bytes: TWO_LINES,
        is_ready: false,
        fails: false,
    };
    let reader = BufReader::with_capacity(rt.alloc(), 7, reader)?;
    // Each byte, and the end, comes after an interruption.
    let reads = 2 * TWO_LINES.len() as u64 + 2;
    let ended = Ended {
        text: BOTH,
        result: Ok(()),
        brought: Brought::End,
    };
    assert_within(&rt, reader, reads, &ended)
}

#[test]
fn a_reader_that_is_always_interrupted_ends_the_replay(rt: HostRuntime) -> Result<(), Fail> {
    let reader = Stuck { bytes: TWO_LINES };
    let reader = BufReader::with_capacity(rt.alloc(), 4096, reader)?;
    let ended = Ended {
        text: BOTH,
        result: Err(ReplayFault::Read),
        brought: Brought::Nothing,
    };
    assert_within(&rt, reader, 1000, &ended)
}

#[test]
fn an_endless_reader_ends_the_replay(rt: HostRuntime) -> Result<(), Fail> {
    let reader = Repeating {
        line: b"A 0 00000000000000000000ffff7f000001 0 \n",
        at: 0,
        times: u32::MAX,
    };
    let reader = BufReader::with_capacity(rt.alloc(), 4096, reader)?;
    let ended = Ended {
        text: "dropped 1\ndropped 1\ndropped 1\n",
        result: Err(ReplayFault::Read),
        brought: Brought::Bytes,
    };
    assert_within(&rt, reader, 3, &ended)
}

#[test]
fn the_end_takes_a_read_of_its_own(rt: HostRuntime) -> Result<(), Fail> {
    let cut = Ended {
        text: BOTH,
        result: Err(ReplayFault::Read),
        brought: Brought::Bytes,
    };
    assert_within(&rt, TWO_LINES, 2, &cut)?;
    let ended = Ended {
        text: BOTH,
        result: Ok(()),
        brought: Brought::End,
    };
    assert_within(&rt, TWO_LINES, 3, &ended)
}

/// What a replay leaves of a writer: the bytes that it took, the result of its last try, and its number of flushes.
#[derive(Clone, Copy)]
struct Written {
    text: &'static str,
    tried: Tried,
    flushes: u32,
}

/// Asserts the result of a replay onto a narrow writer, and what it leaves of it.
fn assert_written(
    rt: &(impl AllocGlobal + Abort),
    tape: &[u8],
    narrow: Narrow,
    end: Result<(), ReplayFault>,
    written: &Written,
) -> Result<(), Fail> {
    let config = config_of(rt, RIGHT)?;
    let mut reader = CountedReader::new(tape);
    let mut writer = CountedWriter::new(narrow);
    assert_eq!(rt; end_of(rt.alloc(), &config, &mut reader, &mut writer), end);
    let narrow = writer.get_ref();
    assert_eq!(rt; narrow.taken.as_slice(), written.text.as_bytes());
    assert_eq!(rt; writer.tried(), written.tried);
    assert_eq!(rt;
        (narrow.flushes, narrow.interruptions),
        (written.flushes, 0)
    );
    Ok(())
}

#[test]
fn an_interrupted_writer_is_written_on(rt: HostRuntime) -> Result<(), Fail> {
    let mut narrow = narrow(rt.alloc(), 20);
    narrow.interruptions = 3;
    let written = Written {
        text: BOTH,
        tried: Tried::Flushed,
        flushes: 1,
    };
    assert_written(&rt, TWO_LINES, narrow, Ok(()), &written)
}

#[test]
fn a_writer_that_fails_in_a_line_ends_the_replay(rt: HostRuntime) -> Result<(), Fail> {
    let written = Written {
        text: "dropped 1\ndropp",
        tried: Tried::NoBytes,
        flushes: 0,
    };
    let narrow = narrow(rt.alloc(), 15);
    assert_written(&rt, TWO_LINES, narrow, Err(ReplayFault::Write), &written)
}

#[test]
fn a_failed_flush_ends_the_replay(rt: HostRuntime) -> Result<(), Fail> {
    let mut narrow = narrow(rt.alloc(), 20);
    narrow.flush_fails = true;
    let written = Written {
        text: BOTH,
        tried: Tried::Failure,
        flushes: 1,
    };
    assert_written(&rt, TWO_LINES, narrow, Err(ReplayFault::Write), &written)
}

#[test]
fn a_fault_flushes(rt: HostRuntime) -> Result<(), Fail> {
    let tape = b"A 0 00000000000000000000ffff7f000001 5000 \nA\n";
    let written = Written {
        text: "dropped 1\n",
        tried: Tried::Flushed,
        flushes: 1,
    };
    let narrow = narrow(rt.alloc(), 20);
    assert_written(&rt, tape, narrow, Err(ReplayFault::Tape(2)), &written)
}

/// A publisher's and a subscriber's conclusions, which are applied.
const SESSIONS: &[u8] =
    b"A 1000000 00000000000000000000ffff7f000001 5000 80000000000000000000000000000000\
00000005000000050000000500\
0005dc00002000ffffffff00000001ecc958a6000000000000000000000000000000000001000300010500000000bf00780078\
000500063a3a212374733d726f696475703d6d2c696c627500006873\nU 0\n\
A 1010000 00000000000000000000ffff7f000001 5001 80000000000000000000000000000000\
00000005000000050000000900\
0005dc00002000ffffffff000000026e4680bd000000000000000000000000000000000001000300010500000000bf00780078\
000500063a3a212374733d726f696475723d6d2c6575716500007473\nU 0\nU 0\nU 0\nU 0\nS 0\nS 0\n";

#[test]
fn the_longest_line_is_written_byte_by_byte(rt: HostRuntime) -> Result<(), Fail> {
    let config = config_of(&rt, RIGHT)?;
    let mut tape = Vec::new(rt.alloc());
    tape.extend_from_slice(SESSIONS)?;
    tape.extend_from_slice(b"A 1020000 00000000000000000000ffff7f000001 5000 ")?;
    tape.extend_from_slice(b"00000005e0000001000003e800100000")?;
    let mut line = Vec::new(rt.alloc());
    line.extend_from_slice(b"\nsent 00000000000000000000ffff7f000001 5001 ")?;
    line.extend_from_slice(b"00000009e00000010001b19800000002")?;
    for _ in 0..1456 {
        tape.extend_from_slice(b"c5")?;
        line.extend_from_slice(b"c5")?;
    }
    tape.extend_from_slice(b"\nU 0\nT 0 1121000\nU 0\nU 0\nU 0\nU 0\nS 0\nS 0\nS 0\n")?;
    line.extend_from_slice(b"\n")?;
    let mut reader = CountedReader::new(tape.as_slice());
    let mut writer = CountedWriter::new(narrow(rt.alloc(), 10_000));
    assert_eq!(rt;
        end_of(rt.alloc(), &config, &mut reader, &mut writer),
        Ok(())
    );
    assert!(rt;
        writer.get_ref().taken.as_slice().ends_with(line.as_slice()),
        "the longest line"
    );
    Ok(())
}
