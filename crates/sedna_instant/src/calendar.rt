// The calendar: leap years, the lengths of months, and the day a date is.
ghost use Rattle.std.specs.Prelude.{◌≡◌, ◌-◌};
ghost use Rattle.sedna_instant.specs.Calendar.{leap, month_length, months_to, days_before};
ghost use Rattle.sedna_instant.specs.inner.Bounds.{IsMonth, InCalendar};

// A year counts as written: any number is one, 0 too.
fn leap_year(year: u64) -> bool
    ensures { result ≡ leap year }
{
    year % 4 == 0 && (year % 100 != 0 || year % 400 == 0)
}

// How many days the month has in that year; none where there is no such month.
pub fn month_length(year: u64, month: u64) -> u64
    ensures { result ≡ month_length year month }
{
    if month == 2 {
        return if leap_year(year) { 29 } else { 28 };
    }
    // Apart, as February is, so that the `match` is looked up: a jump's way is guessed wrong from date to date.
    if 12 < month {
        return 0;
    }
    match month {
        0 => 0,
        4 | 6 | 9 | 11 => 30,
        _ => 31,
    }
}

// How many days of a year that is no leap year, as 1 is none, lie before each month.
const AHEAD: [u64; 12] = [0, 31, 59, 90, 120, 151, 181, 212, 243, 273, 304, 334];

// Looked up likewise.
#[inline(always)]
#[tactic(auto, unfolding(crate::specs::Calendar::months_to))]
fn days_ahead(month: u64) -> u64
    requires { IsMonth month }
    ensures { result ≡ months_to 1 (month - 1) }
{
    AHEAD[(month - 1) as usize]
}

// How many days of the year lie before the month.
#[inline(always)]
#[tactic(auto, using(crate::proofs::Days::leap_day, crate::proofs::Days::no_leap_day, crate::proofs::Days::ahead_335))]
fn months_before(year: u64, month: u64) -> u64
    requires { IsMonth month }
    ensures { result ≡ months_to year (month - 1) }
{
    let days = days_ahead(month);
    if 2 < month && leap_year(year) {
        days + 1
    } else {
        days
    }
}

// How many days lie between 0001-01-01 and the date.
#[inline(always)]
#[tactic(auto, using(crate::proofs::Days::ahead_335, crate::proofs::Days::years_by_division), unfolding(crate::specs::Calendar::days_before))]
pub fn day_count(year: u64, month: u64, day: u64) -> u64
    requires { InCalendar year month day }
    ensures { result ≡ days_before year month day }
{
    let past = year - 1;
    let years = past * 365 + past / 4 - past / 100 + past / 400;
    years + months_before(year, month) + day - 1
}
