//! Times whose texts are from RFC 3339 and from `date -u`.

use crate::utc_text;
use std::process::Abort;

/// Asserts that a moment, in microseconds, has this text.
fn assert_text(rt: &impl Abort, micros: u64, text: &[u8; 24]) {
    assert_eq!(rt; &utc_text(micros), text);
}

#[test]
fn moments_of_rfc_3339(rt: HostRuntime) {
    assert_text(&rt, 482_196_050_520_000, b"1985-04-12T23:20:50.520Z");
    assert_text(&rt, 851_042_397_000_000, b"1996-12-20T00:39:57.000Z");
    assert_text(&rt, 1_795_705_445_123_999, b"2026-11-26T15:04:05.123Z");
}

#[test]
fn days_at_the_ends_of_months_and_years(rt: HostRuntime) {
    assert_text(&rt, 0, b"1970-01-01T00:00:00.000Z");
    assert_text(&rt, 86_399_999_999, b"1970-01-01T23:59:59.999Z");
    assert_text(&rt, 951_782_400_000_000, b"2000-02-29T00:00:00.000Z");
    assert_text(&rt, 951_868_800_000_000, b"2000-03-01T00:00:00.000Z");
    assert_text(&rt, 1_735_689_599_000_000, b"2024-12-31T23:59:59.000Z");
    assert_text(&rt, 4_107_542_399_000_000, b"2100-02-28T23:59:59.000Z");
    assert_text(&rt, 4_107_542_400_000_000, b"2100-03-01T00:00:00.000Z");
    assert_text(&rt, 13_574_606_400_000_000, b"2400-02-29T12:00:00.000Z");
}

#[test]
fn the_last_moment_that_has_a_text(rt: HostRuntime) {
    assert_text(&rt, 253_402_300_799_000_000, b"9999-12-31T23:59:59.000Z");
    assert_text(&rt, 253_402_300_800_000_000, b"9999-12-31T23:59:59.999Z");
    assert_text(&rt, u64::MAX, b"9999-12-31T23:59:59.999Z");
}
