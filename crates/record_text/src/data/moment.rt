//! Moments in text (RFC 4034 section 3.2).

ghost use Rattle.std.specs.Prelude.{◌≡◌, ◌↔◌, ◌<◌, false, length, IfNone, IfOk, IfSome, IsTrue, OnErr};
ghost use Rattle.record_text.specs.RecordText.{HasNone};
ghost use Rattle.record_text.specs.Moments.{IsDate, SpellsDate, SpellsMoment, date_bits, date_seconds, days_before_month, days_before_year, is_leap};

use text_words::{TextError, TextFault, Word, number_of_digits};

/// The seconds from the beginning of year 1 to that of 1970: 719,162 days.
const SECONDS_BEFORE_1970: u64 = 86_400 * 719_162;

/// A number of seconds that is more than those, and none in 32 bits.
const MULTIPLE_OF_32_BITS: u64 = 15 * 0x1_0000_0000;

/// A date with a time of day.
#[derive(Clone, Copy)]
struct Date {
    year: u32,
    month: u32,
    day: u32,
    hour: u32,
    minute: u32,
    second: u32,
}

/// How many days the years from year 1 on have before this one.
fn days_before_year(year: u64) -> u64
    requires first { 0 < year }
    requires short { year < 10000 }
    ensures value { result ≡ days_before_year year }
    ensures small { result < 4000000 }
{
    let years = year - 1;
    365 * years + years / 4 + years / 400 - years / 100
}

/// How many days a year has before a month, the first of which is 1.
fn days_before_month(is_leap: bool, month: u32) -> u64
    ensures value { result ≡ days_before_month is_leap month }
    ensures small { result < 400 }
{
    let leap_day = u64::from(is_leap && month > 2);
    let days = match month {
        2 => 31,
        3 => 59,
        4 => 90,
        5 => 120,
        6 => 151,
        7 => 181,
        8 => 212,
        9 => 243,
        10 => 273,
        11 => 304,
        12 => 334,
        _ => 0,
    };
    days + leap_day
}

/// Whether a year has a 29th of February.
fn is_leap(year: u32) -> bool
    ensures { result ≡ is_leap year }
{
    year % 4 == 0 && (year % 100 != 0 || year % 400 == 0)
}

/// The seconds from the beginning of year 1 to a date.
fn date_seconds(date: Date) -> u64
    requires { IsDate date }
    ensures seconds { result ≡ date_seconds date }
    ensures small { result < 400000000000 }
{
    let first = days_before_year(u64::from(date.year));
    let month = days_before_month(is_leap(date.year), date.month);
    let days = first + month + u64::from(date.day) - 1;
    let hours = 24 * days + u64::from(date.hour);
    let minutes = 60 * hours + u64::from(date.minute);
    60 * minutes + u64::from(date.second)
}

/// The seconds of a date since the beginning of 1970, without what goes beyond 32 bits; those before it are counted
/// back from 0.
fn date_bits(date: Date) -> u32
    requires { IsDate date }
    ensures { result ≡ date_bits date }
{
    let seconds = date_seconds(date) + MULTIPLE_OF_32_BITS - SECONDS_BEFORE_1970;
    (seconds % 0x1_0000_0000) as u32
}

/// Whether a date is one of a calendar from year 1 on, months of 31 days and minutes of 61 seconds allowed.
fn is_date(date: Date) -> bool
    ensures { IsTrue result ↔ IsDate date }
{
    let is_day = matches!(date.month, 1..=12) && matches!(date.day, 1..=31);
    let is_time = date.hour < 24 && date.minute < 60 && date.second < 61;
    matches!(date.year, 1..=9999) && is_day && is_time
}

/// The date of fourteen digits.
fn date_of_digits(digits: &[u8]) -> Option<Date>
    requires { length digits.now ≡ 14 }
    ensures spelled { IfSome result (SpellsDate digits.now) }
    ensures none { IfNone result (HasNone (SpellsDate digits.now)) }
{
    Some(Date {
        year: number_of_digits(&digits[..4])?,
        month: number_of_digits(&digits[4..6])?,
        day: number_of_digits(&digits[6..8])?,
        hour: number_of_digits(&digits[8..10])?,
        minute: number_of_digits(&digits[10..12])?,
        second: number_of_digits(&digits[12..])?,
    })
}

/// The seconds of a moment since the beginning of 1970, in 32 bits.
pub(crate) fn moment(word: &Word<'_>) -> Result<u32, TextError>
    ensures spelled { IfOk result (λ n. (word.now.quoted ≡ false) × SpellsMoment word.now.bytes.now n) }
    ensures refused { OnErr result (HasNone (λ n. (word.now.quoted ≡ false) × SpellsMoment word.now.bytes.now n)) }
{
    let bad = word.fault(TextFault::BadDate);
    if word.quoted {
        return Err(bad);
    }
    if word.bytes.len() != 14 {
        let Some(number) = number_of_digits(word.bytes) else {
            return Err(bad);
        };
        return Ok(number);
    }
    let Some(date) = date_of_digits(word.bytes) else {
        return Err(bad);
    };
    if is_date(date) {
        return Ok(date_bits(date));
    }
    Err(bad)
}
