//! Times as dates of the Gregorian calendar in UTC, without an allocation.

ghost use Rattle.std.specs.Prelude.{◌≡◌, ◌+◌, ◌<◌, false};
ghost use Rattle.opgp_state.specs.Date.{date_of, date_text, date_word, date_words};
ghost use Rattle.opgp_state.specs.Date.{date_words_or_none, day_text, digit, seconds_text};
ghost use Rattle.opgp_state.specs.Date.{year_10000};
ghost use Rattle.opgp_state.specs.March.{date_value, march_days};
ghost use Rattle.opgp_io.specs.Output.{Extends, sink_of};

use opgp_io::{Output, Sink};
use std::io;

/// The days from 1 March of the year 0 to 1970-01-01.
const FIRST_DAY: u32 = 719_468;

/// The seconds of a day.
pub const DAY: u64 = 86_400;

/// When the year 10000 begins, in seconds since 1970. RFC 3339 has years of four digits.
pub(crate) const YEAR_10000: u64 = 253_402_300_800;

/// A day of the Gregorian calendar.
#[derive(Clone, Copy)]
pub struct Date {
    /// Its year.
    pub year: u32,
    /// Its month, from 1 on.
    pub month: u32,
    /// Its day of the month, from 1 on.
    pub day: u32,
}

/// A day of a year that begins on 1 March.
#[derive(Clone, Copy)]
struct MarchDay {
    year: u32,
    passed: u32,
}

/// The day so many days after 1 March of the year 0: the year that begins in March, and how many of
/// its days have passed. The divisions are those of Neri and Schneider, "Euclidean affine functions
/// and their application to calendar algorithms".
fn march_day(days: u32) -> MarchDay
    requires { days < 4_000_000 }
    ensures value { march_days result.year + result.passed ≡ days }
    ensures within { days < march_days (result.year + 1) }
    ensures bound { result.passed < 366 }
{
    let scaled = 4 * days + 3;
    let century = scaled / 146_097;
    let in_century = scaled % 146_097 / 4 * 4 + 3;
    MarchDay {
        year: 100 * century + in_century / 1461,
        passed: in_century % 1461 / 4,
    }
}

/// The day so many days after 1970-01-01, before the year 10000.
fn date_of(days: u32) -> Date
    requires { days < 2_932_897 }
    ensures { date_value result ≡ date_of days }
{
    let MarchDay { year, passed } = march_day(days + FIRST_DAY);
    let scaled = 5 * passed + 461;
    let month = scaled / 153;
    let day = scaled % 153 / 5 + 1;
    if month > 12 {
        Date {
            year: year + 1,
            month: month - 12,
            day,
        }
    } else {
        Date { year, month, day }
    }
}

/// The last decimal digit of a number.
fn digit(n: u32) -> u8
    ensures { result ≡ digit n }
{
    b'0' + (n % 10) as u8
}

/// A day as a text: `2022-11-30`.
fn day_text(date: Date) -> [u8; 10]
    ensures { result ≡ day_text (date_value date) }
{
    let century = date.year / 100;
    [
        digit(century / 10),
        digit(century),
        digit(date.year / 10),
        digit(date.year),
        b'-',
        digit(date.month / 10),
        digit(date.month),
        b'-',
        digit(date.day / 10),
        digit(date.day),
    ]
}

/// The seconds since midnight as a text: `T16:08:03Z`.
fn seconds_text(seconds: u32) -> [u8; 10]
    ensures { result ≡ seconds_text seconds }
{
    let hour = seconds / 3600;
    let minute = seconds / 60 % 60;
    let second = seconds % 60;
    [
        b'T',
        digit(hour / 10),
        digit(hour),
        b':',
        digit(minute / 10),
        digit(minute),
        b':',
        digit(second / 10),
        digit(second),
        b'Z',
    ]
}

/// The date of a time, in seconds since 1970, before the year 10000 (RFC 3339, 5.6).
#[tactic(auto, using(crate::proofs::DateTexts::text_is))]
pub fn date_text(time: u64) -> [u8; 20]
    requires { time < year_10000 }
    ensures { result ≡ date_text time }
{
    let mut text = [0; 20];
    text[..10].copy_from_slice(&day_text(date_of((time / DAY) as u32)));
    text[10..].copy_from_slice(&seconds_text((time % DAY) as u32));
    text
}

/// Adds the date of a time, in seconds since 1970, before the year 10000.
pub fn add_date_word<W: Sink>(output: &mut Output<'_, W>, time: u64) -> io::Result<()>
    requires sound { W.has_failed (sink_of output.old) ≡ false }
    requires written { time < year_10000 }
    ensures { Extends W.held W.has_failed output.old output.new result (date_word time) }
{
    output.add_both(b" ", &date_text(time))
}

/// Adds the date of a time of four octets, and the line's end.
pub fn add_date<W: Sink>(output: &mut Output<'_, W>, time: u32) -> io::Result<()>
    requires { W.has_failed (sink_of output.old) ≡ false }
    ensures { Extends W.held W.has_failed output.old output.new result (date_words time) }
{
    add_date_word(output, time as u64)?;
    output.add(b"\n")
}

/// Adds the date of a time of four octets, or `-` for none, and the line's end.
pub fn add_date_or_none<W: Sink>(output: &mut Output<'_, W>, time: Option<u32>) -> io::Result<()>
    requires { W.has_failed (sink_of output.old) ≡ false }
    ensures { Extends W.held W.has_failed output.old output.new result (date_words_or_none time) }
{
    match time {
        Some(time) => add_date(output, time),
        None => output.add(b" -\n"),
    }
}
