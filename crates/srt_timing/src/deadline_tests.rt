//! Deadlines and thresholds computed by hand.

ghost use Rattle.std.specs.Prelude.{◌^◌, ◌<◌};

use crate::{Base, too_late_before};
use srt_types::{MOMENT_END, Stamp32};
use std::test::Fail;

/// A second, in microseconds.
const SECOND: u64 = 1_000_000;

/// Returns the deadline of a timestamp in a session that was opened at time 1,000,000.
fn deadline(first: u32, stamp: u32, since_opening: u64, delay: u32) -> i64
    requires { since_opening < 2 ^ 61 }
{
    Base::new(SECOND, Stamp32::new(first)).deadline(
        0,
        Stamp32::new(stamp),
        SECOND + since_opening,
        delay,
    )
}

#[test]
fn stamps_go_round_between_the_conclusion_and_the_packet(rt: HostRuntime) -> Result<(), Fail> {
    assert_eq!(rt; deadline(0xffff_ff00, 0x0000_0100, 600, 120_000), 1_120_512);
    // The same timestamp after it wrapped five times.
    assert_eq!(rt;
        deadline(0xffff_ff00, 0x0000_0100, 600 + (5 << 32), 120_000),
        21_475_956_992
    );
    assert_eq!(rt; deadline(0xffff_ff00, 0xffff_ff00, 0, 0), 1_000_000);
    Ok(())
}

#[test]
fn stamps_are_read_nearest_to_the_senders_time(rt: HostRuntime) -> Result<(), Fail> {
    // A time 2^31 earlier is in the range of a timestamp, one 2^31 later isn't.
    assert_eq!(rt; deadline(0, 0, 1 << 31, 120_000), 1_120_000);
    assert_eq!(rt; deadline(0, 0, (1 << 31) + 1, 120_000), 4_296_087_296);
    assert_eq!(rt; deadline(0, 0x8000_0000, 0, 120_000), -2_146_363_648);
    assert_eq!(rt; deadline(0, 0x7fff_ffff, 0, 120_000), 2_148_603_647);
    assert_eq!(rt;
        deadline(0xffff_ff00, 0x7fff_ff00, 0, 120_000),
        -2_146_363_648
    );
    assert_eq!(rt;
        deadline(0xffff_ff00, 0x7fff_feff, 0, 120_000),
        2_148_603_647
    );
    Ok(())
}

#[test]
fn deadlines_at_the_last_moment(rt: HostRuntime) -> Result<(), Fail> {
    let last = MOMENT_END - 1;
    let early = Base::new(0, Stamp32::new(0));
    assert_eq!(rt;
        early.deadline(0, Stamp32::new(u32::MAX), last, u32::MAX),
        4_611_686_022_722_355_198
    );
    let late = Base::new(last, Stamp32::new(u32::MAX));
    assert_eq!(rt;
        late.deadline(0, Stamp32::new(0x7fff_fffe), last, u32::MAX),
        4_611_686_024_869_838_845
    );
    assert_eq!(rt;
        late.deadline(0, Stamp32::new(0x7fff_ffff), last, 0),
        4_611_686_016_279_904_255
    );
    Ok(())
}

#[test]
fn a_packet_gets_older_than_the_delay_and_a_quarter(rt: HostRuntime) -> Result<(), Fail> {
    // A packet queued at 5,000,000 is kept at 7,500,000 and dropped a microsecond later.
    assert_eq!(rt; too_late_before(7_500_000, 2_000_000), 5_000_000);
    assert_eq!(rt; too_late_before(7_500_001, 2_000_000), 5_000_001);
    assert_eq!(rt; too_late_before(1_000_000_000, 65_535_000), 918_081_250);
    assert_eq!(rt;
        too_late_before(MOMENT_END - 1, u32::MAX),
        4_611_686_013_058_678_785
    );
    Ok(())
}

#[test]
fn a_packet_gets_a_second_old(rt: HostRuntime) -> Result<(), Fail> {
    assert_eq!(rt; too_late_before(0, 20_000), -1_000_000);
    assert_eq!(rt; too_late_before(1_000_000_000, 799_999), 999_000_000);
    assert_eq!(rt; too_late_before(1_000_000_000, 800_000), 999_000_000);
    assert_eq!(rt; too_late_before(1_000_000_000, 800_004), 998_999_995);
    Ok(())
}
