//! Refusals of callers that come again and again. The expected values were worked out by hand from the rule.

use crate::{
    LogEvent, MAX_REPEATS, Refusal, RefusalRepeats, Repeat, Telling, put_object, write_line,
};
use srt_types::{NotAdmitted, Peer, Role};
use std::process::Abort;
use std::test::Fail;

/// A second, in microseconds.
const SECOND: u64 = 1_000_000;

/// A refusal with 1002 of 192.0.2.`host`, from this port.
fn refusal(host: u8, port: u16, name: &[u8], by: Option<NotAdmitted>) -> Refusal<'_> {
    Refusal {
        code: 1002,
        peer: Peer {
            ip: [0, 0, 0, 0, 0, 0, 0, 0, 0, 0, 0xff, 0xff, 192, 0, 2, host],
            port,
        },
        name,
        by,
    }
}

/// Asserts that these are the last byte of a caller's address and its count.
fn assert_due<R: Abort>(rt: &R, due: Option<Repeat>, wanted: Option<(u8, u64)>) {
    let found = match due {
        Some(caller) => Some((caller.ip[15], caller.count)),
        None => None,
    };
    assert!(rt; found == wanted);
}

#[test]
fn a_caller_that_tries_each_second_has_a_line_and_then_counts(rt: HostRuntime) -> Result<(), Fail> {
    let mut repeats = RefusalRepeats::new();
    let unknown = Some(NotAdmitted::UnknownName);
    assert!(&rt; repeats.note(refusal(7, 5000, b"live", unknown), SECOND) == Telling::Line);
    for second in 2..11u16 {
        let again = refusal(7, 5000 + second, b"live", unknown);
        assert!(&rt; repeats.note(again, u64::from(second) * SECOND) == Telling::Counted);
    }
    assert_due(&rt, repeats.take_due(10 * SECOND), None);
    assert_due(&rt, repeats.take_due(11 * SECOND), Some((7, 9)));
    assert_due(&rt, repeats.take_due(11 * SECOND), None);
    assert!(&rt; repeats.note(refusal(7, 1, b"live", unknown), 12 * SECOND) == Telling::Counted);
    assert_due(&rt, repeats.take_due(20 * SECOND), None);
    assert_due(&rt, repeats.take_due(u64::MAX), Some((7, 1)));
    Ok(())
}

#[test]
fn another_name_reason_or_address_has_its_own_line(rt: HostRuntime) -> Result<(), Fail> {
    let mut repeats = RefusalRepeats::new();
    let unknown = Some(NotAdmitted::UnknownName);
    let key = Some(NotAdmitted::Key(Role::Publish));
    let other = Some(NotAdmitted::Key(Role::Request));
    assert!(&rt; repeats.note(refusal(7, 1, b"live", unknown), 0) == Telling::Line);
    assert!(&rt; repeats.note(refusal(8, 1, b"live", unknown), 0) == Telling::Line);
    assert!(&rt; repeats.note(refusal(7, 1, b"livi", unknown), 0) == Telling::Line);
    assert!(&rt; repeats.note(refusal(7, 1, b"live", key), 0) == Telling::Line);
    assert!(&rt; repeats.note(refusal(7, 1, b"live", other), 0) == Telling::Line);
    assert!(&rt; repeats.note(refusal(7, 1, b"live", None), 0) == Telling::Line);
    let mut full = refusal(7, 1, b"live", None);
    full.code = 1003;
    assert!(&rt; repeats.note(full, 0) == Telling::Line);
    assert!(&rt; repeats.note(refusal(7, 2, b"live", other), 1) == Telling::Counted);
    assert!(&rt; repeats.note(full, 1) == Telling::Counted);
    Ok(())
}

#[test]
fn after_ten_quiet_seconds_a_caller_has_a_line_again(rt: HostRuntime) -> Result<(), Fail> {
    let mut repeats = RefusalRepeats::new();
    assert!(&rt; repeats.note(refusal(7, 1, b"a", None), 5) == Telling::Line);
    assert!(&rt; repeats.note(refusal(7, 1, b"a", None), 10 * SECOND + 5) == Telling::Line);
    assert!(&rt; repeats.note(refusal(7, 1, b"a", None), 20 * SECOND + 4) == Telling::Counted);
    assert_due(&rt, repeats.take_due(20 * SECOND + 5), Some((7, 1)));
    Ok(())
}

#[test]
fn callers_beyond_those_that_are_known_have_lines(rt: HostRuntime) -> Result<(), Fail> {
    let mut repeats = RefusalRepeats::new();
    let known = MAX_REPEATS as u8;
    for host in 0..known {
        assert!(&rt; repeats.note(refusal(host, 1, b"a", None), 0) == Telling::Line);
    }
    assert!(&rt; repeats.note(refusal(known, 1, b"a", None), 1) == Telling::Line);
    assert!(&rt; repeats.note(refusal(known, 1, b"a", None), 2) == Telling::Line);
    assert!(&rt; repeats.note(refusal(3, 1, b"a", None), 3) == Telling::Counted);
    assert!(&rt; repeats.note(refusal(known, 1, b"a", None), 10 * SECOND) == Telling::Line);
    assert!(&rt; repeats.note(refusal(known, 1, b"a", None), 10 * SECOND + 1) == Telling::Counted);
    Ok(())
}

#[test]
fn lines_and_objects_of_repeats_and_absences(rt: HostRuntime) -> Result<(), Fail> {
    let again = LogEvent::RefusedAgain {
        ip: [0, 0, 0, 0, 0, 0, 0, 0, 0, 0, 0xff, 0xff, 192, 0, 2, 7],
        code: 1002,
        name: b"live/a b",
        by: Some(NotAdmitted::UnknownName),
        count: 23,
    };
    let absent = LogEvent::Absent {
        route: b"studio",
        minutes: 0,
    };
    let longer = LogEvent::Absent {
        route: b"studio",
        minutes: 20,
    };
    let mut out = Vec::new(rt.alloc());
    for event in [again, absent, longer] {
        write_line(&mut out, None, event)?;
    }
    assert_eq!(&rt;
        out.as_slice(),
        b"192.0.2.7 refused 23 more times, 1002 PEER, asked for \"live/a b\", unknown name\nstudio: expected on air, no encoder\nstudio: expected on air, no encoder for 20 minutes\n".as_slice()
    );
    let mut objects = Vec::new(rt.alloc());
    put_object(&mut objects, None, again)?;
    put_object(&mut objects, None, longer)?;
    assert_eq!(&rt;
        objects.as_slice(),
        b"{\"event\":\"refused_again\",\"text\":\"192.0.2.7 refused 23 more times, 1002 PEER, asked for \\\"live/a b\\\", unknown name\",\"code\":1002,\"address\":\"192.0.2.7\",\"name\":\"live/a b\",\"cause\":\"unknown_name\",\"count\":23}\n{\"event\":\"absent\",\"text\":\"studio: expected on air, no encoder for 20 minutes\",\"route\":\"studio\",\"minutes\":20}\n".as_slice()
    );
    Ok(())
}
