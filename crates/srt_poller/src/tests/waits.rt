//! Which wait a socket's source makes next.

use crate::pace::{Pace, Pause};
use std::process::Abort;
use std::test::Fail;

/// A pace after this many datagrams, `apart` microseconds apart; then a read found none.
fn after_apart(datagrams: u64, apart: u64) -> Pace {
    let mut pace = Pace::new();
    let mut moment = 1_000_000u64;
    for _ in 0..datagrams {
        pace.arrived(moment);
        moment = moment.wrapping_add(apart);
    }
    pace.ended();
    pace
}

/// A pace after this many datagrams in a millisecond, a wait, and a datagram in the next millisecond.
fn continued(datagrams: u64) -> Pace {
    let mut pace = after_apart(datagrams, 10);
    pace.wait(0);
    pace.arrived(1_001_000);
    pace.ended();
    pace
}

/// A pace after this many datagrams, 50 microseconds apart.
fn after(datagrams: u64) -> Pace {
    after_apart(datagrams, 50)
}

fn assert_waits(rt: &impl Abort, pace: &mut Pace, sent: u32, wanted: &[Pause]) {
    for pause in wanted {
        assert_eq!(rt; pace.wait(sent), *pause);
    }
}

#[test]
fn a_source_polls_briefly_for_a_hundred_waits_after_a_datagram(
    rt: HostRuntime,
) -> Result<(), Fail> {
    assert_waits(
        &rt,
        &mut Pace::new(),
        0,
        &[Pause::Poll(10), Pause::Poll(10)],
    );
    let mut pace = after(1);
    for _ in 0..100 {
        assert_waits(&rt, &mut pace, 0, &[Pause::Poll(1)]);
    }
    assert_waits(&rt, &mut pace, 0, &[Pause::Poll(10)]);
    pace.arrived(1_000_100);
    assert_waits(&rt, &mut pace, 0, &[Pause::Poll(0), Pause::Poll(0)]);
    Ok(())
}

#[test]
fn a_source_naps_once_after_reads_in_a_dense_stream(rt: HostRuntime) -> Result<(), Fail> {
    // the 21st datagram begins the second millisecond; the first had twenty
    assert_waits(&rt, &mut after(20), 0, &[Pause::Poll(1)]);
    assert_waits(&rt, &mut after(21), 63, &[Pause::Nap, Pause::Poll(1)]);
    // too many to send, or to read
    assert_waits(&rt, &mut after(21), 64, &[Pause::Poll(1), Pause::Poll(1)]);
    assert_waits(&rt, &mut after(63), 0, &[Pause::Nap, Pause::Poll(1)]);
    assert_waits(&rt, &mut after(64), 0, &[Pause::Poll(1)]);
    // two milliseconds without a datagram
    let mut pace = after(21);
    pace.arrived(1_003_000);
    pace.ended();
    assert_waits(&rt, &mut pace, 0, &[Pause::Poll(1)]);
    // 99 datagrams in the millisecond before this one's, and then 100
    assert_waits(&rt, &mut continued(99), 0, &[Pause::Nap]);
    assert_waits(&rt, &mut continued(100), 0, &[Pause::Poll(1)]);
    Ok(())
}
