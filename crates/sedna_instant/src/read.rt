// Reads a text of type 10, XML Schema's dateTime with its zone.
ghost use Rattle.std.specs.Prelude.{◌≡◌};
ghost use Rattle.sedna_instant.specs.DateTimes.{time_right, is_formed, year_was, fraction_was, seconds_of, nanos_of, timed_of, instant_of};
ghost use Rattle.sedna_instant.specs.inner.Bounds.{SecondsFit, NanosFit, FieldsRead};

use crate::calendar::{day_count, month_length};
use crate::fields::{Clock, Fraction, Year};
use crate::{Instant, fields};
use sedna_digits::power;
use wire::Refusal;

// An hour up to 23, a minute and a second up to 59; or 24:00:00, and then the fraction is 0 too.
fn time_right(c: Clock, fraction: u64) -> bool
    ensures { result ≡ time_right c fraction }
{
    match c.hour {
        0..=23 => c.minute <= 59 && c.second <= 59,
        24 => c.minute == 0 && c.second == 0 && fraction == 0,
        _ => false,
    }
}

// The date is one of the calendar, and the time is right.
// Year, clock and fraction apart: each is read, and refused, on its own.
fn formed(y: Year, c: Clock, f: Fraction) -> bool
    ensures { result ≡ is_formed (year_was y) c (fraction_was f) }
{
    1 <= c.day && c.day <= month_length(y.number, c.month) && time_right(c, f.number)
}

// Seconds from 1970, of a date and time with what its zone adds. 62,135,683,200 are those from 0001-01-01 to 1970-01-01,
// and the day that the zone has on top.
#[inline(always)]
#[tactic(auto, using(crate::proofs::Seconds::few_days, crate::proofs::Seconds::all_below))]
fn seconds(year: u64, c: Clock, shift: u64) -> i64
    requires { SecondsFit year c shift }
    ensures { result ≡ seconds_of year c shift }
{
    let days = day_count(year, c.month, c.day);
    let all = days * 86400 + c.hour * 3600 + c.minute * 60 + c.second + shift;
    (all as i64) - 62135683200
}

// The digits of a fraction, at most nine, filled up to nine.
#[inline(always)]
#[tactic(auto, using(crate::proofs::Fractions::filled_up))]
fn nanos(f: Fraction) -> u32
    requires { NanosFit f }
    ensures { result ≡ nanos_of (fraction_was f) }
{
    (f.number * power(9 - f.count)) as u32
}

// 16 for a year that is none of 0001 to 9999, and more than nine digits behind the point.
#[inline(always)]
fn timed(y: Year, c: Clock, f: Fraction, shift: u64) -> Result<Instant, Refusal>
    requires { FieldsRead y c f shift }
    ensures { result ≡ timed_of (year_was y) c (fraction_was f) shift }
{
    if y.minus || y.number < 1 || 9999 < y.number || 9 < f.count {
        return Err(Refusal::OutOfRange);
    }
    Ok(Instant {
        seconds: seconds(y.number, c, shift),
        nanos: nanos(f),
    })
}

// 15 wherever it has not the form of a dateTime, over the whole text, and only then 16.
pub fn instant(s: &[u8]) -> Result<Instant, Refusal>
    ensures { result ≡ instant_of s.now }
{
    let y = fields::year_of(s).ok_or(Refusal::NotOfForm)?;
    let c = fields::clock_at(s, y.end).ok_or(Refusal::NotOfForm)?;
    let f = fields::fraction_at(s, y.end + 15).ok_or(Refusal::NotOfForm)?;
    if !formed(y, c, f) {
        return Err(Refusal::NotOfForm);
    }
    timed(y, c, f, fields::zone_at(s, f.end)?)
}
