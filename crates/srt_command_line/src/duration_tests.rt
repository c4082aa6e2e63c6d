//! Durations at their limits, and texts that are none.

use crate::durations::duration_in;

#[test]
fn durations_of_each_unit(rt: HostRuntime) {
    assert_eq!(rt; duration_in(b"30s"), Some(30_000_000));
    assert_eq!(rt; duration_in(b"90m"), Some(5_400_000_000));
    assert_eq!(rt; duration_in(b"8h"), Some(28_800_000_000));
    assert_eq!(rt; duration_in(b"2d"), Some(172_800_000_000));
}

#[test]
fn numbers_alone_are_seconds(rt: HostRuntime) {
    assert_eq!(rt; duration_in(b"90"), Some(90_000_000));
    assert_eq!(rt; duration_in(b"1"), Some(1_000_000));
    assert_eq!(rt; duration_in(b"31536000"), Some(31_536_000_000_000));
    assert_eq!(rt; duration_in(b"31536001"), None);
    assert_eq!(rt; duration_in(b"0"), None);
}

#[test]
fn durations_of_several_units(rt: HostRuntime) {
    assert_eq!(rt; duration_in(b"1h30m"), Some(5_400_000_000));
    assert_eq!(rt; duration_in(b"8h30m"), Some(30_600_000_000));
    assert_eq!(rt; duration_in(b"1d2h3m4s"), Some(93_784_000_000));
    assert_eq!(rt; duration_in(b"1m90s"), Some(150_000_000));
    assert_eq!(rt; duration_in(b"0h5s"), Some(5_000_000));
    assert_eq!(rt; duration_in(b"364d24h"), Some(31_536_000_000_000));
    assert_eq!(rt; duration_in(b"365d1s"), None);
}

#[test]
fn units_out_of_their_order(rt: HostRuntime) {
    assert_eq!(rt; duration_in(b"30m1h"), None);
    assert_eq!(rt; duration_in(b"1h1h"), None);
    assert_eq!(rt; duration_in(b"1h30"), None);
    assert_eq!(rt; duration_in(b"1hm"), None);
    assert_eq!(rt; duration_in(b"m5s"), None);
}

#[test]
fn durations_at_their_limits(rt: HostRuntime) {
    assert_eq!(rt; duration_in(b"1s"), Some(1_000_000));
    assert_eq!(rt; duration_in(b"0s"), None);
    assert_eq!(rt; duration_in(b"365d"), Some(31_536_000_000_000));
    assert_eq!(rt; duration_in(b"8760h"), Some(31_536_000_000_000));
    assert_eq!(rt; duration_in(b"31536001s"), None);
    assert_eq!(rt; duration_in(b"366d"), None);
    assert_eq!(rt; duration_in(b"18446744073709551616s"), None);
    assert_eq!(rt; duration_in(b"213503983d"), None);
}

#[test]
fn texts_that_are_no_duration(rt: HostRuntime) {
    assert_eq!(rt; duration_in(b""), None);
    assert_eq!(rt; duration_in(b"h"), None);
    assert_eq!(rt; duration_in(b"8H"), None);
    assert_eq!(rt; duration_in(b"-8h"), None);
    assert_eq!(rt; duration_in(b"1.5h"), None);
    assert_eq!(rt; duration_in(b"8 h"), None);
}
