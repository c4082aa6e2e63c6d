//! Sequences of round-trip samples, and of Full ACKs and ACKACKs.

use crate::{AckBook, Rtt, SampledRtt};
use srt_types::Callers;
use std::test::Fail;

#[test]
fn round_trips(rt: HostRuntime) -> Result<(), Fail> {
    let mut times = Rtt::start();
    assert_eq!(rt; (times.rtt(), times.variance()), (100_000, 50_000));
    assert_eq!(rt; times.resend_after(), 320_000);
    times.sample(20_000);
    assert_eq!(rt; (times.rtt(), times.variance()), (90_000, 57_500));
    times.set(3_000, 1_000);
    // 7 x 3000 + 3003 is 8 x 3000 + 3, and 3 x 1000 + 3 is 4 x 750 + 3: both are rounded down.
    times.sample(3_003);
    assert_eq!(rt; (times.rtt(), times.variance()), (3_000, 750));
    times.set(u32::MAX, u32::MAX);
    assert_eq!(rt; times.resend_after(), 21_474_856_475);
    times.sample(0);
    assert_eq!(rt; (times.rtt(), times.variance()), (3_758_096_383, u32::MAX));
    Ok(())
}

#[test]
fn confirmations(rt: HostRuntime) -> Result<(), Fail> {
    let mut book = AckBook::open(rt.alloc())?;
    assert_eq!(rt; book.confirm(1, 1_000_000), None);
    assert_eq!(rt; book.note(1_010_000), 1);
    assert_eq!(rt; book.place_of(1), Some(0));
    assert_eq!(rt; book.confirm(0, 1_030_000), None);
    assert_eq!(rt; book.confirm(2, 1_030_000), None);
    assert_eq!(rt; book.confirm(1, 1_030_000), Some(20_000));
    assert_eq!(rt; book.confirm(1, 1_030_000), None);
    assert_eq!(rt; book.note(2_000_000), 2);
    assert_eq!(rt; book.note(2_010_000), 3);
    assert_eq!(rt; book.place_of(2), Some(1));
    assert_eq!(rt; book.confirm(3, 12_010_001), Some(10_000_000));
    assert_eq!(rt; book.confirm(2, 12_010_001), Some(10_000_000));
    Ok(())
}

#[test]
fn the_last_64(rt: HostRuntime) -> Result<(), Fail> {
    let mut book = AckBook::open(rt.alloc())?;
    for k in 1..=65 {
        assert_eq!(rt; book.note(10_000 * k), k as u32);
    }
    assert_eq!(rt; book.confirm(1, 700_000), None);
    assert_eq!(rt; book.place_of(2), Some(63));
    assert_eq!(rt; book.confirm(2, 700_000), Some(680_000));
    assert_eq!(rt; book.confirm(65, 700_000), Some(50_000));
    assert_eq!(rt; book.confirm(66, 700_000), None);
    assert_eq!(rt; book.confirm(u32::MAX, 700_000), None);
    book.clear();
    assert_eq!(rt; book.confirm(64, 700_000), None);
    assert_eq!(rt; book.note(800_000), 1);
    assert_eq!(rt; book.confirm(64, 800_000), None);
    Ok(())
}

#[test]
fn first_samples(rt: HostRuntime) -> Result<(), Fail> {
    let mut drafts = SampledRtt::start(Callers::Draft);
    let mut libsrts = SampledRtt::start(Callers::Libsrt);
    assert_eq!(rt; libsrts.values(), drafts.values());
    // 7 x 100,000 + 20,001 is 8 x 90,000 + 1, and 3 x 50,000 + 79,999 is 4 x 57,499 + 3.
    drafts.sample(20_001);
    assert_eq!(rt;
        (drafts.values().rtt(), drafts.values().variance()),
        (90_000, 57_499)
    );
    libsrts.sample(20_001);
    assert_eq!(rt;
        (libsrts.values().rtt(), libsrts.values().variance()),
        (20_001, 10_000)
    );
    // 7 x 20,001 + 30,000 is 8 x 21,250 + 7, and 3 x 10,000 + 9,999 is 4 x 9,999 + 3.
    libsrts.sample(30_000);
    assert_eq!(rt;
        (libsrts.values().rtt(), libsrts.values().variance()),
        (21_250, 9_999)
    );
    Ok(())
}
