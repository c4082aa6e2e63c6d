//! Days since 1970 as dates of the Gregorian calendar.

ghost use Rattle.std.specs.Prelude.{◌≡◌, ◌+◌, ◌<◌, ◌≤◌};
ghost use Rattle.srt_log.specs.Dates.{is_leap, year_length, month_length, days_before_year, days_before_month, days_end, days_of, IsDate};

/// A date of the Gregorian calendar.
#[derive(Clone, Copy)]
pub(crate) struct Date {
    /// The year: 1970 to 9999.
    pub(crate) year: u32,
    /// The month, from 1.
    pub(crate) month: u32,
    /// The day of the month, from 1.
    pub(crate) day: u32,
}

/// Whether a year has a 29th of February.
fn is_leap(year: u32) -> bool
    ensures { result ≡ is_leap year }
{
    year % 4 == 0 && (year % 100 != 0 || year % 400 == 0)
}

/// The days of a year.
fn year_length(year: u32) -> u32
    ensures value { result ≡ year_length year }
    ensures most { result ≤ 366 }
{
    if is_leap(year) { 366 } else { 365 }
}

/// The days of a month, 1 to 12, of a year that is a leap year or not.
fn month_length(leap: bool, month: u32) -> u32
    ensures value { result ≡ month_length leap month }
    ensures most { result ≤ 31 }
{
    match month {
        2 => { if leap { 29 } else { 28 } }
        4 | 6 | 9 | 11 => 30,
        _ => 31,
    }
}

/// The year of a day, counted from 1970, and the day's index in it, counted from 0.
#[tactic(auto, using(crate::proofs::Calendar::next_year, crate::proofs::Calendar::last_year, crate::proofs::Calendar::no_years))]
fn year_of(days: u32) -> (u32, u32)
    requires { days < days_end }
    ensures days { days ≡ days_before_year result.0 + result.1 }
    ensures within { result.1 < year_length (1970 + result.0) }
    ensures last { result.0 ≤ 8029 }
{
    let mut left = days;
    for years in 0..8029 {
        let len = year_length(1970 + years);
        if left < len {
            return (years, left);
        }
        left -= len;
    }
    (8029, left)
}

/// The month of the day of this index in its year, and the day's index in it, both counted from 0.
#[tactic(auto, using(crate::proofs::Calendar::next_month, crate::proofs::Calendar::no_months, crate::proofs::Calendar::december))]
fn month_of(leap: bool, index: u32) -> (u32, u32)
    requires { index < days_before_month leap 12 }
    ensures days { index ≡ days_before_month leap result.0 + result.1 }
    ensures within { result.1 < month_length leap (result.0 + 1) }
    ensures last { result.0 < 12 }
{
    let mut left = index;
    for month in 0..11 {
        let len = month_length(leap, month + 1);
        if left < len {
            return (month, left);
        }
        left -= len;
    }
    (11, left)
}

/// The date of a day, counted from 1970-01-01.
#[tactic(auto, using(crate::proofs::Calendar::whole_year, crate::proofs::Calendar::since, crate::proofs::Calendar::before))]
pub(crate) fn date_of(days: u32) -> Date
    requires { days < days_end }
    ensures date { IsDate result }
    ensures days { days_of result ≡ days }
{
    let (years, index) = year_of(days);
    let year = 1970 + years;
    let (month, day) = month_of(is_leap(year), index);
    Date {
        year,
        month: month + 1,
        day: day + 1,
    }
}
