//! Moments as texts.

ghost use Rattle.std.specs.Prelude.{◌≡◌, ◌<◌};
ghost use Rattle.srt_log.specs.Times.{digit_at, text_of, IsUtcText};

use crate::dates::{Date, date_of};

/// The last moment that has a text, in microseconds since 1970: the end of 9999.
const MICROS_LAST: u64 = 253_402_300_799_999_999;

/// The digit of a number at this place: 1 for the last one, 10 for the one before it.
fn digit_at(number: u32, place: u32) -> u8
    requires { 0 < place }
    ensures { result ≡ digit_at number place }
{
    b'0' + (number / place % 10) as u8
}

/// The text of a date and a time of the day, in milliseconds.
fn text_of(date: Date, millis: u32) -> [u8; 24]
    ensures { result ≡ text_of date millis }
{
    let Date { year, month, day } = date;
    let hour = millis / 3_600_000;
    let minute = millis / 60_000 % 60;
    let second = millis / 1000 % 60;
    [
        digit_at(year, 1000),
        digit_at(year, 100),
        digit_at(year, 10),
        digit_at(year, 1),
        b'-',
        digit_at(month, 10),
        digit_at(month, 1),
        b'-',
        digit_at(day, 10),
        digit_at(day, 1),
        b'T',
        digit_at(hour, 10),
        digit_at(hour, 1),
        b':',
        digit_at(minute, 10),
        digit_at(minute, 1),
        b':',
        digit_at(second, 10),
        digit_at(second, 1),
        b'.',
        digit_at(millis, 100),
        digit_at(millis, 10),
        digit_at(millis, 1),
        b'Z',
    ]
}

/// The text of a moment in UTC, in microseconds since 1970, as `2026-11-26T15:04:05.123Z`: 24 bytes of ASCII.
/// Microseconds below a millisecond are cut off; any moment after 9999 has the text of that year's end. Leap seconds
/// aren't counted, as in the system's time.
pub fn utc_text(micros: u64) -> [u8; 24]
    ensures { IsUtcText micros result }
{
    let millis = micros.min(MICROS_LAST) / 1000;
    text_of(
        date_of((millis / 86_400_000) as u32),
        (millis % 86_400_000) as u32,
    )
}
