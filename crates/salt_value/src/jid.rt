//! Job ids: moments in microseconds, and their text.
ghost use Rattle.salt_value.specs.Jid as spec;
ghost use Rattle.salt_value.specs.Calendar.{date_text, HasParts};
ghost use Rattle.salt_value.specs.DateNumbers as told;
ghost use Rattle.jiff_core.specs.Date.{epoch_day};
ghost use Rattle.std.specs.Prelude.{◌≡◌, ◌≤◌, ◌<◌, ◌+◌, ◌^◌, length, pos, IfSome, IfNone};
ghost use Rattle.std.specs.Result.{result_ok};

use jiff_core::civil::Date;
use std::marker::Model;
use thiserror::Error;

/// A job id: microseconds since 1970-01-01 UTC, up to the end of the year 9999. Contracts see the number.
#[derive(Clone, Copy, Debug, PartialEq, Eq, Hash, PartialOrd, Ord)]
pub struct Jid {
    micros: u64,
}

impl Model for Jid {
    ghost use Rattle.std.specs.Prelude.{ℕ, ◌≤◌};
    ghost use Rattle.std.specs.Coded.{coded_ℕ};

    ghost Value = { ℕ };

    ghost coded = { coded_ℕ };

    ghost use Rattle.salt_value.specs.Jid.{greatest_jid};

    ghost view = { λ j. j.micros };

    ghost invariant = { λ j. j.micros ≤ greatest_jid };

    ghost inverse = { λ n. record { micros = n } };
}

/// No job id is left: the next one would pass the end of the year 9999.
#[derive(Clone, Copy, Debug, Error, PartialEq, Eq)]
#[error("no job id is left")]
pub struct JidEnd;

/// The greatest one.
const GREATEST: u64 = 253_402_300_799_999_999;

/// The microseconds of a day.
const DAY: u64 = 86_400_000_000;

// Two digits of a number.
fn two_digits(n: u64) -> [u8; 2]
    ensures { result ≡ spec.two_digits n }
{
    [48 + (n / 10 % 10) as u8, 48 + (n % 10) as u8]
}

fn four_digits(n: u64) -> [u8; 4]
    ensures { result ≡ spec.four_digits n }
{
    let [a, b] = two_digits(n / 100);
    let [c, d] = two_digits(n);
    [a, b, c, d]
}

// The date that lies so many days after 1970-01-01.
fn date_after(days: u32) -> Date
    requires { days ≤ 2_932_896 }
    ensures { epoch_day result ≡ pos days }
{
    Date::from_days_since_min(days + 4_371_587)
}

// The digits of a date's year, month and day.
fn date_digits(date: Date) -> [u8; 8]
    ensures { result ≡ date_text date }
{
    let [y1, y2, y3, y4] = four_digits(date.year.unsigned_abs() as u64);
    let [m1, m2] = two_digits(date.month as u64);
    let [d1, d2] = two_digits(date.day as u64);
    [y1, y2, y3, y4, m1, m2, d1, d2]
}

// The digits of a time of the day, in microseconds.
fn clock_digits(micros: u64) -> [u8; 12]
    ensures { result ≡ spec.clock_text micros }
{
    let [h1, h2] = two_digits(micros / 3_600_000_000);
    let [i1, i2] = two_digits(micros / 60_000_000 % 60);
    let [s1, s2] = two_digits(micros / 1_000_000 % 60);
    let [u1, u2] = two_digits(micros % 1_000_000 / 10_000);
    let [u3, u4, u5, u6] = four_digits(micros % 1_000_000);
    [h1, h2, i1, i2, s1, s2, u1, u2, u3, u4, u5, u6]
}

// Two digits of a text as a number, right or not.
fn two_at(text: &[u8], i: usize) -> u64
    requires { i + 2 ≤ length text.now }
    ensures value { result ≡ told.two_at text.now i }
    ensures bound { result < 2 ^ 12 }
{
    10 * (text[i] as u64).saturating_sub(48) + (text[i + 1] as u64).saturating_sub(48)
}

// The microseconds since midnight that a text tells, right or not.
#[tactic(auto, unfolding(crate::specs::DateNumbers::clock_told))]
fn clock_told(text: &[u8]) -> u64
    requires { length text.now ≡ 20 }
    ensures value { result ≡ told.clock_told text.now }
    ensures bound { result < 2 ^ 48 }
{
    two_at(text, 8) * 3_600_000_000
        + two_at(text, 10) * 60_000_000
        + two_at(text, 12) * 1_000_000
        + two_at(text, 14) * 10_000
        + two_at(text, 16) * 100
        + two_at(text, 18)
}

// The date that a text tells, if the calendar has it.
fn date_told(text: &[u8]) -> Option<Date>
    requires { length text.now ≡ 20 }
    ensures some { IfSome result (λ d. HasParts d (told.date_told text.now)) }
    ensures none { IfNone result ((d : Date) → HasParts d (told.date_told text.now) → ⊥) }
{
    let year = 100 * two_at(text, 0) + two_at(text, 2);
    let month = two_at(text, 4);
    let day = two_at(text, 6);
    if year > 9999 {
        return None;
    }
    if month > 12 {
        return None;
    }
    if day > 31 {
        return None;
    }
    match Date::new(year as i16, month as i8, day as i8) {
        Ok(date) => Some(date),
        Err(_) => None,
    }
}

impl Jid {
    ghost use Rattle.salt_value.specs.Reading.{Decodes};
    ghost use Rattle.salt_value.specs.Jid.{next_jid, jid_text, greatest_jid};
    ghost use Rattle.salt_value.specs.Calendar.{IsJidText};

    /// The job id of a publication at a moment, in microseconds since 1970-01-01 UTC: the moment,
    /// or the last job id plus 1 where that is greater.
    pub fn next(last: Option<Jid>, moment: u64) -> Result<Jid, JidEnd>
        ensures { result_ok result ≡ next_jid last moment }
    {
        let next = match last {
            None => moment,
            Some(last) => moment.max(last.micros + 1),
        };
        if next <= GREATEST {
            Ok(Jid { micros: next })
        } else {
            Err(JidEnd)
        }
    }

    /// Its date and time in UTC, as YYYYMMDDhhmmssffffff (Salt documentation, Jobs).
    pub fn text(self) -> [u8; 20]
        ensures value { result ≡ jid_text self }
        ensures calendar { IsJidText self result }
    {
        let [y1, y2, y3, y4, m1, m2, d1, d2] = date_digits(date_after((self.micros / DAY) as u32));
        let [h1, h2, i1, i2, s1, s2, u1, u2, u3, u4, u5, u6] = clock_digits(self.micros % DAY);
        [
            y1, y2, y3, y4, m1, m2, d1, d2, h1, h2, i1, i2, s1, s2, u1, u2, u3, u4, u5, u6,
        ]
    }

    /// The job id that has this text.
    pub fn read(text: &[u8]) -> Option<Jid>
        ensures { Decodes (λ j. j ≤ greatest_jid) jid_text text.now result }
    {
        if text.len() != 20 {
            return None;
        }
        let date = match date_told(text) {
            Some(date) => date,
            None => return None,
        };
        let days = date.to_unix_epoch_day();
        if days < 0 {
            return None;
        }
        let micros = days as u64 * DAY + clock_told(text);
        if micros > GREATEST {
            return None;
        }
        let jid = Jid { micros };
        if jid.text().as_slice() == text {
            Some(jid)
        } else {
            None
        }
    }

    /// Microseconds since 1970-01-01 UTC.
    pub fn micros(self) -> u64
        ensures value { result ≡ self }
        ensures bound { self ≤ greatest_jid }
    {
        self.micros
    }
}
