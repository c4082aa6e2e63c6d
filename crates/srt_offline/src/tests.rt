//! The line of each fault, as docs/PROTOCOL.md has them ("The program's output").

use crate::faults::OfflineFault;
use srt_config::{ConfigFault, Key};
use srt_replay::ReplayFault;
use srt_transcript::TranscriptFault;
use std::fmt::InlineText;
use std::process::Abort;
use std::test::Fail;

/// Asserts that this line is printed for a fault.
fn assert_line(rt: &impl Abort, fault: OfflineFault, line: &str) {
    assert!(rt; fault.is_printed());
    assert_eq!(rt; InlineText::<64>::of(&fault).as_str(), line);
}

#[test]
fn each_fault_has_its_line(rt: HostRuntime) -> Result<(), Fail> {
    let unknown = ConfigFault::UnknownKey(String::from_str(rt.alloc(), "colour")?);
    assert_line(
        &rt,
        OfflineFault::Config(ConfigFault::Toml),
        "config fault 1 -",
    );
    assert_line(&rt, OfflineFault::Config(unknown), "config fault 2 colour");
    assert_line(
        &rt,
        OfflineFault::Config(ConfigFault::Missing(Key::Bind)),
        "config fault 3 bind",
    );
    assert_line(
        &rt,
        OfflineFault::Config(ConfigFault::BadSecret),
        "config fault 8 secret",
    );
    assert_line(
        &rt,
        OfflineFault::Replay(ReplayFault::Tape(1_000_001)),
        "tape fault 1000001",
    );
    assert_line(
        &rt,
        OfflineFault::Replay(ReplayFault::OutOfMemory),
        "memory",
    );
    assert_line(&rt, OfflineFault::Replay(ReplayFault::Read), "file fault");
    assert_line(
        &rt,
        OfflineFault::Transcript(TranscriptFault::Read),
        "file fault",
    );
    assert_line(
        &rt,
        OfflineFault::Transcript(TranscriptFault::Output),
        "file fault",
    );
    assert_line(&rt, OfflineFault::File, "file fault");
    assert_line(&rt, OfflineFault::Memory, "memory");
    Ok(())
}

#[test]
fn an_output_that_fails_has_no_line(rt: HostRuntime) {
    assert!(rt; !OfflineFault::Output.is_printed());
    assert!(rt; !OfflineFault::Replay(ReplayFault::Write).is_printed());
    assert!(rt; !OfflineFault::Transcript(TranscriptFault::Write).is_printed());
}

#[test]
fn a_line_that_is_no_event_has_no_other_line(rt: HostRuntime) {
    assert!(rt; !OfflineFault::Transcript(TranscriptFault::NoEvent(3)).is_printed());
}
