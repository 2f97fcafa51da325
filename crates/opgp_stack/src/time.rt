//! Times as a command line says them, without an allocation.

ghost use Rattle.std.specs.Prelude.{◌≡◌, ◌+◌, ◌-◌, ◌*◌, ◌^◌, ◌<◌, ◌≤◌, ◌++◌, ℕ, IfNone, IfSome, codes};
ghost use Rattle.opgp_state.specs.Date.{days_before, days_in_month, days_in_year, days_of_months};
ghost use Rattle.opgp_state.specs.Date.{date_text, days_of_years};
ghost use Rattle.opgp_state.specs.March.{date_value};
ghost use Rattle.opgp_stack.specs.Time.{IsDateOf, IsSeconds, IsTime, date_at, digit_at, four_at};
ghost use Rattle.opgp_stack.specs.Time.{seconds_at, two_at};

use opgp_state::{DAY, Date, date_text};

/// How many digits a number of seconds has at most.
const MOST_DIGITS: usize = 18;

/// How many days the times of four octets have.
const DAYS: u32 = 49_711;

/// The days of a year.
fn days_in_year(year: u32) -> u32
    ensures { result ≡ days_in_year year }
{
    if year % 4 == 0 && (year % 100 != 0 || year % 400 == 0) {
        366
    } else {
        365
    }
}

/// The days of a month of a year.
fn days_in_month(year: u32, month: u32) -> u32
    ensures { result ≡ days_in_month year month }
{
    match month {
        2 => days_in_year(year) - 337,
        4 | 6 | 9 | 11 => 30,
        _ => 31,
    }
}

/// The days of so many years from 1970 on.
#[tactic(auto, using(crate::proofs::Times::years_start, crate::proofs::Times::years_next, crate::proofs::Times::year_most))]
fn days_of_years(years: u32) -> u32
    requires { years ≤ 1000000 }
    ensures value { result ≡ days_of_years years }
    ensures bound { result ≤ 366 * years }
{
    let mut days = 0;
    for year in 0..years {
        days += days_in_year(1970 + year);
    }
    days
}

/// The days of so many months of a year.
#[tactic(auto, using(crate::proofs::Times::months_start, crate::proofs::Times::months_next, crate::proofs::Times::month_most))]
fn days_of_months(year: u32, months: u32) -> u32
    requires { months ≤ 10000 }
    ensures value { result ≡ days_of_months year months }
    ensures bound { result ≤ 31 * months }
{
    let mut days = 0;
    for month in 0..months {
        days += days_in_month(year, month + 1);
    }
    days
}

/// The days before a date, from 1970 on.
#[tactic(auto, using(crate::proofs::Times::before_is))]
fn days_before(date: Date) -> u32
    requires year { date.year ≤ 1000000 }
    requires month { date.month ≤ 10000 }
    requires day { date.day ≤ 10000 }
    ensures { result ≡ days_before (date_value date) }
{
    let years = days_of_years(date.year.saturating_sub(1970));
    let months = days_of_months(date.year, date.month.saturating_sub(1));
    years + months + date.day.saturating_sub(1)
}

/// The number that a digit is.
fn digit_at(text: &[u8; 20], at: usize) -> u32
    requires { at < 20 }
    ensures value { result ≡ digit_at text.now at }
    ensures bound { result < 256 }
{
    text[at].saturating_sub(b'0') as u32
}

/// The number that two digits are.
fn two_at(text: &[u8; 20], at: usize) -> u32
    requires { at < 19 }
    ensures value { result ≡ two_at text.now at }
    ensures bound { result < 2816 }
{
    digit_at(text, at) * 10 + digit_at(text, at + 1)
}

/// The number that four digits are.
fn four_at(text: &[u8; 20], at: usize) -> u32
    requires { at < 17 }
    ensures value { result ≡ four_at text.now at }
    ensures bound { result < 284416 }
{
    two_at(text, at) * 100 + two_at(text, at + 2)
}

/// The time whose date a text would be, if it were one.
fn candidate(text: &[u8; 20]) -> Option<u32>
    ensures some { IfSome result (λ n. n ≡ days_before (date_at text.now) * 86400
        + seconds_at text.now) }
    ensures none { IfNone result ((n : ℕ) → n < 2 ^ 32
        → n ≡ days_before (date_at text.now) * 86400 + seconds_at text.now → ⊥) }
{
    let days = days_before(Date {
        year: four_at(text, 0),
        month: two_at(text, 5),
        day: two_at(text, 8),
    });
    let seconds = two_at(text, 11) * 3600 + two_at(text, 14) * 60 + two_at(text, 17);
    let time = u64::from(days) * DAY + u64::from(seconds);
    if time < 4_294_967_296 {
        Some(time as u32)
    } else {
        None
    }
}

/// The time whose date a text is.
fn time_of_date(text: &[u8; 20]) -> Option<u64>
    ensures some { IfSome result (IsDateOf text.now) }
    ensures none { IfNone result ((n : ℕ) → IsDateOf text.now n → ⊥) }
{
    match candidate(text) {
        Some(time) => {
            if date_text(time as u64) == *text {
                Some(time as u64)
            } else {
                None
            }
        }
        None => None,
    }
}

/// The time whose date these octets are.
fn date_in(octets: &[u8]) -> Option<u64>
    ensures some { IfSome result (IsDateOf octets.now) }
    ensures none { IfNone result ((n : ℕ) → IsDateOf octets.now n → ⊥) }
{
    if octets.len() != 20 {
        return None;
    }
    let mut text = [0; 20];
    text.copy_from_slice(octets);
    time_of_date(&text)
}

/// The first second of the day that these octets are.
fn day_in(octets: &[u8]) -> Option<u64>
    ensures some { IfSome result (IsDateOf (octets.now ++ codes "T00:00:00Z")) }
    ensures none { IfNone result ((n : ℕ)
        → IsDateOf (octets.now ++ codes "T00:00:00Z") n → ⊥) }
{
    if octets.len() != 10 {
        return None;
    }
    let mut text = *b"0000-00-00T00:00:00Z";
    text[..10].copy_from_slice(octets);
    time_of_date(&text)
}

/// The number of seconds that a text is.
fn seconds_in(text: &str) -> Option<u64>
    ensures some { IfSome result (IsSeconds text.now) }
    ensures none { IfNone result ((n : ℕ) → IsSeconds text.now n → ⊥) }
{
    if text.len() > MOST_DIGITS {
        return None;
    }
    match text.as_bytes() {
        [b'+', ..] => None,
        _ => match text.parse::<u64>() {
            Ok(seconds) => Some(seconds),
            Err(_) => None,
        },
    }
}

/// The time that a text says, in seconds since 1970: a number of them, of 18 digits at most; a date
/// and a time of that day in UTC, as `2026-11-20T08:30:00Z` (RFC 3339, 5.6); or a date alone, which
/// is its first second. A date is one that the calendar has, and not later than the last time of
/// four octets, 2106-02-07T06:28:15Z. None: the text says no time.
pub fn time_in(text: &str) -> Option<u64>
    ensures some { IfSome result (IsTime text.now) }
    ensures none { IfNone result ((n : ℕ) → IsTime text.now n → ⊥) }
{
    match seconds_in(text) {
        Some(time) => Some(time),
        None => match date_in(text.as_bytes()) {
            Some(time) => Some(time),
            None => day_in(text.as_bytes()),
        },
    }
}
