//! Parses the times, dates and numbers of tables.

ghost use Rattle.std.specs.Prelude.{◌≡◌, ◌==◌, ◌+◌, ◌*◌, ◌<◌, ◌≤◌, true, length, IfOk, IfSome, Some};
ghost use Rattle.std.specs.Result.{result_err};
ghost use Rattle.std.specs.Char.{is_ascii_digit};
ghost use Rattle.std.specs.List.{AllPass, list_all, prefix_len};
ghost use Rattle.gtfs_rows.specs.Faults.{fault_unless};
ghost use Rattle.gtfs_rows.specs.Values.{clock_of, day_of, decimal_of, digit_of, is_zero_fraction, number_of, time_of};
ghost use Rattle.gtfs_rows.specs.Values.{two_digits_of, checked_day};

use crate::fault::FaultKind;
use jiff::civil::Date;

/// Returns the time of a text `H:MM:SS` or `HH:MM:SS`, in seconds after the start of the service day; it may be later
/// than 24:00:00.
pub fn time(text: &[u8]) -> Option<u32>
    ensures { result ≡ time_of text.now }
{
    match text {
        [h, c, m, n, d, s, t] => {
            let hours = digit(*h)?;
            clock(hours, *c, two_digits(*m, *n)?, *d, two_digits(*s, *t)?)
        }
        [g, h, c, m, n, d, s, t] => {
            let hours = two_digits(*g, *h)?;
            clock(hours, *c, two_digits(*m, *n)?, *d, two_digits(*s, *t)?)
        }
        _ => None,
    }
}

// Returns the same, or `BadTime` if the text isn't a time.
#[inline(always)]
pub(crate) fn clock_time(text: &[u8]) -> Result<u32, FaultKind>
    ensures ok { IfOk result (λ t. time_of text.now ≡ Some t) }
    ensures fault { result_err result ≡ fault_unless (time_of text.now) FaultKind.BadTime }
{
    time(text).ok_or(FaultKind::BadTime)
}

// Returns hours, minutes and seconds as seconds; none if a separator isn't a colon, or minutes or seconds exceed 59.
fn clock(hours: u32, colon: u8, minutes: u32, second_colon: u8, seconds: u32) -> Option<u32>
    requires { hours < 100 }
    ensures { result ≡ clock_of (Some hours) colon (Some minutes) second_colon (Some seconds) }
{
    if colon == b':' && second_colon == b':' && minutes <= 59 && seconds <= 59 {
        Some(hours * 3600 + minutes * 60 + seconds)
    } else {
        None
    }
}

// Returns the value of a decimal digit.
fn digit(byte: u8) -> Option<u32>
    ensures value { result ≡ digit_of byte }
    ensures small { IfSome result (λ d. d < 10) }
{
    if byte.is_ascii_digit() {
        Some(byte as u32 - b'0' as u32)
    } else {
        None
    }
}

// Returns the value of two decimal digits.
fn two_digits(tens: u8, units: u8) -> Option<u32>
    ensures value { result ≡ two_digits_of tens units }
    ensures small { IfSome result (λ d. d < 100) }
{
    let tens = digit(tens)?;
    let units = digit(units)?;
    Some(tens * 10 + units)
}

/// A civil date.
#[derive(Clone, Copy, Debug, PartialEq, Eq, PartialOrd, Ord)]
pub struct Day {
    pub year: u16,
    pub month: u8,
    pub day: u8,
}

/// Returns the date of a text `YYYYMMDD`, a civil date of the years 1 to 9999.
pub fn date(text: &[u8]) -> Option<Day>
    ensures { result ≡ day_of text.now }
{
    let [a, b, c, d, e, f, g, h] = text else {
        return None;
    };
    let century = two_digits(*a, *b)?;
    let of_century = two_digits(*c, *d)?;
    let month = two_digits(*e, *f)?;
    let day = two_digits(*g, *h)?;
    civil(Day {
        year: (century * 100 + of_century) as u16,
        month: month as u8,
        day: day as u8,
    })
}

// Returns the date, if it is a civil date of the years 1 to 9999.
fn civil(day: Day) -> Option<Day>
    requires { (day.year < 10000) × (day.month < 100) × (day.day < 100) }
    ensures { result ≡ checked_day day }
{
    if day.year > 0 && Date::new(day.year as i16, day.month as i8, day.day as i8).is_ok() {
        return Some(day);
    }
    None
}

/// Returns the number of a text: one to nine decimal digits, after which a point and one or more zeros may follow.
#[inline(always)]
pub fn number(text: &[u8]) -> Option<u32>
    ensures { result ≡ number_of text.now }
{
    match text {
        [] => None,
        [units] => digit(*units),
        [tens, units] => two_digits(*tens, *units),
        _ => longer_number(text),
    }
}

// Returns the number of a text of any length. This is never inlined, so that shorter numbers cost no call.
#[inline(never)]
#[tactic(auto, using(crate::proofs::ValueLemmas::take_passes))]
fn longer_number(text: &[u8]) -> Option<u32>
    ensures { result ≡ number_of text.now }
{
    let digits = leading_digits(text);
    if 0 < digits && digits <= 9 && zero_fraction(&text[digits..]) {
        Some(decimal(&text[..digits]))
    } else {
        None
    }
}

// Returns how many decimal digits a text begins with.
fn leading_digits(text: &[u8]) -> usize
    ensures count { result ≡ prefix_len is_ascii_digit text.now }
    ensures within { result ≤ length text.now }
{
    text.iter().take_while(|byte| byte.is_ascii_digit()).count()
}

// Returns whether a text is empty, or a point and one or more zeros.
fn zero_fraction(text: &[u8]) -> bool
    ensures { result ≡ is_zero_fraction text.now }
{
    match text {
        [] => true,
        [point, zeros @ ..] => *point == b'.' && 0 < zeros.len() && all_zeros(zeros),
    }
}

fn all_zeros(text: &[u8]) -> bool
    ensures { result ≡ list_all (λ b. b == 48) text.now }
{
    text.iter().all(|b| *b == b'0')
}

// Returns the number that up to nine decimal digits spell.
fn decimal(digits: &[u8]) -> u32
    requires few { length digits.now ≤ 9 }
    requires digits { AllPass is_ascii_digit digits.now }
    ensures { result ≡ decimal_of digits.now }
{
    let mut number = 0;
    for byte in digits {
        number = number * 10 + (*byte - b'0') as u32;
    }
    number
}
