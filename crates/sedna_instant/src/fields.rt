// The fields of a dateTime by their places: the year, month to second, the fraction and the zone.
ghost use Rattle.std.specs.Prelude.{◌≡◌, ◌+◌, ◌≤◌, length};
ghost use Rattle.sedna_instant.specs.DateTimes.{year_of, formed_year, marks_at, clock_there, fraction_at, formed_fraction, offset_at, zone_at};
ghost use Rattle.sedna_digits.specs.Digits.{some_below};
ghost use Rattle.sedna_instant.specs.inner.Bounds.{GivesWithin, FoundFits, ShiftBounded};

use sedna_digits::{byte_at, digits, two_digits};
use wire::Refusal;

// A year as it is written: a minus sign or none, and four digits, or more of which the first is not 0.
#[derive(Clone, Copy)]
pub struct Year {
    pub minus: bool,
    pub number: u64,
    pub end: usize,
}

#[tactic(auto, unfolding(crate::specs::DateTimes::year_of))]
pub fn year_of(s: &[u8]) -> Option<Year>
    ensures { result ≡ formed_year (year_of s.now) }
{
    let minus = s.starts_with(b"-");
    let at = usize::from(minus);
    let run = digits(s, at);
    let count = run.end - at;
    if count == 4 || 4 < count && byte_at(s, at) != b'0' {
        Some(Year {
            minus,
            number: run.number,
            end: run.end,
        })
    } else {
        None
    }
}

// The numbers behind the year, of two digits each.
#[derive(Clone, Copy)]
pub struct Clock {
    pub month: u64,
    pub day: u64,
    pub hour: u64,
    pub minute: u64,
    pub second: u64,
}

// The five bytes between those numbers.
#[tactic(auto, unfolding(crate::specs::DateTimes::marks_at))]
fn marks(s: &[u8], at: usize) -> bool
    requires { at + 15 ≤ length s.now }
    ensures { result ≡ marks_at s.now at }
{
    s[at] == b'-'
        && s[at + 3] == b'-'
        && s[at + 6] == b'T'
        && s[at + 9] == b':'
        && s[at + 12] == b':'
}

// -MM-DDThh:mm:ss in front of `s`. The room is judged once, and with no `at` to add to, it is known at each number.
#[inline(always)]
fn clock_in_front(s: &[u8]) -> Option<Clock>
    ensures { result ≡ clock_there s.now 0 }
{
    if s.len() < 15 || !marks(s, 0) {
        return None;
    }
    Some(Clock {
        month: two_digits(s, 1)?,
        day: two_digits(s, 4)?,
        hour: two_digits(s, 7)?,
        minute: two_digits(s, 10)?,
        second: two_digits(s, 13)?,
    })
}

// The same from `at` on.
pub fn clock_at(s: &[u8], at: usize) -> Option<Clock>
    ensures { result ≡ clock_there s.now at }
{
    clock_in_front(s.get(at..)?)
}

// A point and digits, or nothing at all.
#[derive(Clone, Copy)]
pub struct Fraction {
    pub count: usize,
    pub number: u64,
    pub end: usize,
}

#[tactic(auto, using(crate::proofs::Fractions::run_filled), unfolding(crate::specs::DateTimes::fraction_at))]
pub fn fraction_at(s: &[u8], at: usize) -> Option<Fraction>
    ensures { GivesWithin FoundFits (formed_fraction (fraction_at s.now at)) result }
{
    if s.get(at) != Some(&b'.') {
        return Some(Fraction {
            count: 0,
            number: 0,
            end: at,
        });
    }
    let run = digits(s, at + 1);
    let count = run.end - (at + 1);
    if count == 0 {
        return None;
    }
    Some(Fraction {
        count,
        number: run.number,
        end: run.end,
    })
}

// hh:mm, and nothing behind it, in minutes, up to 14:00.
#[inline(always)]
#[tactic(auto, unfolding(crate::specs::DateTimes::offset_at))]
fn offset_alone(s: &[u8]) -> Option<u64>
    ensures { result ≡ some_below 841 (offset_at s.now 0) }
{
    match s {
        [_, _, b':', _, _] => {
            let hours = two_digits(s, 0)?;
            let minutes = two_digits(s, 3)?;
            let all = hours * 60 + minutes;
            if minutes <= 59 && all <= 840 {
                Some(all)
            } else {
                None
            }
        }
        _ => None,
    }
}

// The same at `at`, with which the text ends.
#[tactic(auto, unfolding(crate::specs::DateTimes::offset_at))]
fn offset(s: &[u8], at: usize) -> Option<u64>
    ensures { result ≡ some_below 841 (offset_at s.now at) }
{
    offset_alone(s.get(at..)?)
}

// Z, or a sign and an offset, up to the text's end. What is added to local time, in seconds on top of a day, so that it
// is never negative; 16 where there is no zone.
#[tactic(auto, unfolding(crate::specs::DateTimes::zone_at))]
pub fn zone_at(s: &[u8], at: usize) -> Result<u64, Refusal>
    ensures { GivesWithin ShiftBounded (zone_at s.now at) result }
{
    match s.get(at..) {
        None | Some([]) => Err(Refusal::OutOfRange),
        Some(b"Z") => Ok(86400),
        Some([sign, ..]) => {
            let minutes = offset(s, at + 1).ok_or(Refusal::NotOfForm)?;
            match sign {
                b'+' => Ok(86400 - minutes * 60),
                b'-' => Ok(86400 + minutes * 60),
                _ => Err(Refusal::NotOfForm),
            }
        }
    }
}
