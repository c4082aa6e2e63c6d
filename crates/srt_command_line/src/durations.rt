//! Durations as they stand on a command line.

ghost use Rattle.std.specs.Prelude.{◌≡◌, ◌≤◌, IfSome};
ghost use Rattle.srt_command_line.specs.Durations.{unit_of, with_digit, with_part, with_byte, read_all, sum_of, duration_in};

/// The least duration, in microseconds: 1 second.
const MIN_DURATION: u64 = 1_000_000;

/// The greatest duration, in microseconds: 365 days.
const MAX_DURATION: u64 = 31_536_000_000_000;

/// The unit of a number without one: a second.
const SECOND: u64 = 1_000_000;

/// What was read of a duration so far.
#[derive(Clone, Copy)]
pub(crate) struct DurationReading {
    /// The sum of the parts that have their unit, in microseconds.
    sum: u64,
    /// The number that has no unit yet; `None` where none has begun.
    number: Option<u64>,
    /// The last unit, in microseconds; `None` before the first one.
    unit: Option<u64>,
}

/// What was read before the first byte.
const NOTHING: DurationReading = DurationReading {
    sum: 0,
    number: None,
    unit: None,
};

/// The microseconds of a unit: `s`, `m`, `h` and `d`. None for any other letter.
fn unit_of(letter: u8) -> Option<u64>
    ensures { result ≡ unit_of letter }
{
    match letter {
        b's' => Some(1_000_000),
        b'm' => Some(60_000_000),
        b'h' => Some(3_600_000_000),
        b'd' => Some(86_400_000_000),
        _ => None,
    }
}

/// The number with one more digit. None if it isn't below 2^64.
fn with_digit(number: u64, digit: u8) -> Option<u64>
    ensures { result ≡ with_digit number digit }
{
    number.checked_mul(10)?.checked_add(u64::from(digit))
}

/// What was read with one more part: a number of a unit, in microseconds. None if the unit isn't smaller than the last
/// one, or the sum is more than 365 days.
fn with_part(reading: DurationReading, number: u64, unit: u64) -> Option<DurationReading>
    ensures { result ≡ with_part reading number unit }
{
    if let Some(last) = reading.unit {
        if unit >= last {
            return None;
        }
    }
    let sum = number.checked_mul(unit)?.checked_add(reading.sum)?;
    if sum > MAX_DURATION {
        return None;
    }
    Some(DurationReading {
        sum,
        number: None,
        unit: Some(unit),
    })
}

/// What was read with one more byte. None if no duration goes on so.
fn with_byte(reading: DurationReading, byte: u8) -> Option<DurationReading>
    ensures { result ≡ with_byte reading byte }
{
    match byte {
        b'0'..=b'9' => Some(DurationReading {
            number: Some(with_digit(reading.number.unwrap_or(0), byte - b'0')?),
            ..reading
        }),
        _ => with_part(reading, reading.number?, unit_of(byte)?),
    }
}

/// What was read of all bytes. None if no duration begins so. Linear in the length.
#[tactic(auto, using(crate::proofs::Bytes::ends, crate::proofs::Bytes::goes_on))]
fn read_all(text: &[u8]) -> Option<DurationReading>
    ensures { result ≡ read_all text.now }
{
    let mut reading = NOTHING;
    for byte in text {
        match with_byte(reading, *byte) {
            Some(more) => reading = more,
            None => return None,
        }
    }
    Some(reading)
}

/// The microseconds of what was read. A number alone is one of seconds; behind a part it has to have its unit.
fn sum_of(reading: DurationReading) -> Option<u64>
    ensures { result ≡ sum_of reading }
{
    match (reading.number, reading.unit) {
        (None, _) => Some(reading.sum),
        (Some(number), None) => number.checked_mul(SECOND),
        (Some(_), Some(_)) => None,
    }
}

/// The duration of a text, in microseconds: a number of seconds, such as `90`, or numbers with the units `d`, `h`, `m` and
/// `s`, for days, hours, minutes and seconds, such as `8h` and `1h30m`, each unit at most once and the greatest first. None
/// for a text of another form, and for a duration that isn't from 1 second to 365 days.
pub(crate) fn duration_in(text: &[u8]) -> Option<u64>
    ensures value { result ≡ duration_in text.now }
    ensures limits { IfSome result (λ duration. (1_000_000 ≤ duration) × (duration ≤ 31_536_000_000_000)) }
{
    let duration = sum_of(read_all(text)?)?;
    if duration >= MIN_DURATION && duration <= MAX_DURATION {
        Some(duration)
    } else {
        None
    }
}
