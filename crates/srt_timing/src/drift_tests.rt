//! A sender's clock, followed by ACKACKs. Each session was opened at one second.

ghost use Rattle.std.specs.Prelude.{◌^◌, ◌<◌};
ghost use Rattle.srt_timing.specs.Clock.{IsSlow};

use crate::{Base, Drift, since_conclusion};
use srt_types::Stamp32;
use std::process::Abort;
use std::test::Fail;

/// A second, in microseconds.
const SECOND: u64 = 1_000_000;

/// A sample and the correction after it, in microseconds.
#[derive(Clone, Copy)]
struct Row {
    /// Time since the opening.
    time: u32,
    /// Timestamp relative to the conclusion's.
    stamp: u32,
    /// Round-trip time, at most 10 s.
    round_trip: u32,
    correction: i32,
}

/// Returns the row of a sample after which the correction is this one.
const fn sampled(time: u32, stamp: u32, round_trip: u32, correction: i32) -> Row {
    Row {
        time,
        stamp,
        round_trip,
        correction,
    }
}

/// Asserts the corrections after these samples.
fn assert_rows(rt: &impl Abort, drift: &mut Drift, rows: &[Row]) {
    for row in rows {
        let round_trip = u64::from(row.round_trip);
        assert!(rt; round_trip <= 10_000_000);
        drift.sample(u64::from(row.time), Stamp32::new(row.stamp), round_trip);
        assert_eq!(rt; drift.correction(), i64::from(row.correction));
    }
}

/// Asserts the corrections of a first window, whose reference is a lateness of 750.
fn assert_reference(rt: &impl Abort, drift: &mut Drift) {
    let rows = [
        sampled(1_010_000, 1_005_250, 8_000, 0),
        sampled(2_010_000, 2_005_250, 8_000, 0),
    ];
    assert_rows(rt, drift, &rows);
}

#[test]
fn the_correction_moves_once_a_second(rt: HostRuntime) -> Result<(), Fail> {
    let mut drift = Drift::none();
    assert_eq!(rt; drift.correction(), 0);
    assert_rows(
        &rt,
        &mut drift,
        &[
            // the first window: latenesses of 500, of 750 with a lesser round trip, and of 900 with a longer one
            sampled(1_010_000, 1_004_500, 10_000, 0),
            sampled(1_508_000, 1_503_250, 8_000, 0),
            sampled(2_009_999, 2_004_599, 9_000, 0),
            // it closes with 750, the reference
            sampled(2_010_000, 5, 30_000, 0),
            // 1,250, and then 1,700 with an equal round trip: it moves by 950 of at most 1,100
            sampled(2_110_000, 2_103_750, 10_000, 0),
            sampled(3_110_000, 3_103_300, 10_000, 950),
            // 20,000: it moves by at most a thousandth of 1,100,999
            sampled(3_210_000, 3_204_050, 10_000, 950),
            sampled(4_210_999, 4_185_049, 10_000, 2_050),
            // 4,999 - 2^31: it moves by at most a thousandth of 1,198,999
            sampled(4_310_000, 4_302_950, 10_000, 2_050),
            sampled(5_409_998, 2_152_881_597, 10_000, 852),
        ],
    );
    Ok(())
}

#[test]
fn a_window_is_discarded_after_ten_seconds(rt: HostRuntime) -> Result<(), Fail> {
    let mut drift = Drift::none();
    assert_reference(&rt, &mut drift);
    assert_rows(
        &rt,
        &mut drift,
        &[
            // 123, and 750 ten seconds later: it begins anew, and 50,750 with a longer round trip closes it with 750
            sampled(5_500_010, 5_499_882, 10, 0),
            sampled(15_500_010, 15_499_255, 10, 0),
            sampled(25_500_009, 25_449_254, 11, 0),
            // 11,250 and 20,750 in a window that begins anew: it moves by at most a thousandth of 11,209,991
            sampled(35_600_000, 30_599_250, 10_000_000, 0),
            sampled(35_710_000, 35_693_750, 10_000, 0),
            sampled(36_710_000, 36_684_250, 10_000, 11_209),
        ],
    );
    Ok(())
}

#[test]
fn early_timestamps_move_it_beyond_the_slack(rt: HostRuntime) -> Result<(), Fail> {
    let mut drift = Drift::none();
    assert_reference(&rt, &mut drift);
    assert_rows(
        &rt,
        &mut drift,
        &[
            // -1,250 is 2,000 less, -1,251 is 2,001 less
            sampled(2_110_000, 2_105_000, 10_000, 0),
            sampled(3_110_000, 3_106_250, 10_000, 0),
            sampled(3_210_000, 3_205_000, 10_000, 0),
            sampled(4_210_000, 4_206_251, 10_000, -1),
        ],
    );
    Ok(())
}

/// Returns the deadline of a timestamp with a delay of 120 ms.
fn deadline(first: u32, correction: i64, stamp: u32, now: u64) -> i64
    requires early { now < 2 ^ 62 }
    requires slow { IsSlow correction (2 ^ 62) }
{
    Base::new(SECOND, Stamp32::new(first)).deadline(correction, Stamp32::new(stamp), now, 120_000)
}

#[test]
fn deadlines_follow_the_clock(rt: HostRuntime) -> Result<(), Fail> {
    assert_eq!(rt; deadline(0, 950, 5_000_000, 4_300_000), 6_120_950);
    assert_eq!(rt;
        deadline(0xffff_ff00, -1_100, 0x0026_2694, 3_300_000),
        3_619_400
    );
    // The timestamp is read nearest to the corrected time, so that deadlines stay near the arrival.
    assert_eq!(rt;
        deadline(0xffff_ff00, -1_100, 0x8029_362b, 3_700_000),
        2_151_303_647
    );
    assert_eq!(rt;
        deadline(0xffff_ff00, -1_100, 0x8029_362c, 3_700_000),
        -2_143_663_648
    );
    Ok(())
}

#[test]
fn timestamps_count_from_the_conclusion(rt: HostRuntime) -> Result<(), Fail> {
    assert_eq!(rt;
        since_conclusion(Stamp32::new(0x0026_2694), Stamp32::new(0xffff_ff00)).word,
        2_500_500
    );
    Ok(())
}
