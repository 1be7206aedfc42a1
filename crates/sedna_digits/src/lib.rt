// Runs of digits, of which the texts of numbers and instants are made, and powers of ten. A run is walked once, front
// to back.
#![tactic(auto)]

ghost use Rattle.std.specs.Prelude.{◌≡◌, ◌-◌, ◌≤◌, ◌^◌, min, get_or};
ghost use Rattle.sedna_digits.specs.Digits.{digits_at, two_digits_at, some_below, behind_sign};
ghost use Rattle.sedna_digits.specs.inner.Growing.{grown};

// The byte at `at`, 0 behind the end.
pub fn byte_at(s: &[u8], at: usize) -> u8
    ensures { result ≡ get_or s.now at 0 }
{
    s.get(at).copied().unwrap_or(0)
}

// The number of a digit.
fn digit(b: u8) -> u64
    requires { 48 ≤ b }
    ensures { result ≡ b - 48 }
{
    (b - b'0') as u64
}

// A number with one more digit behind it, as far as it is kept: exactly up to 2^63, and above that only that it is
// greater, and its remainder by 400, by which a year is known to be a leap year.
#[tactic(auto, unfolding(crate::specs::inner::Growing::grown))]
fn grow(n: u64, digit: u64) -> u64
    requires { digit ≤ 9 }
    ensures { result ≡ grown n digit }
{
    // By itself: behind `||` both sides are judged for each digit.
    if n < 922337203685477580 {
        return n * 10 + digit;
    }
    if n == 922337203685477580 && digit <= 8 {
        return n * 10 + digit;
    }
    9223372036854776000 + (n % 400 * 10 + digit) % 400
}

// Where a run of digits ends, and the number that they are, as far as it is kept.
#[derive(Clone, Copy)]
pub struct Run {
    pub end: usize,
    pub number: u64,
}

// The digits from `at` on, up to the first byte that is none.
pub fn digits(s: &[u8], at: usize) -> Run
    ensures { result ≡ digits_at s.now at }
{
    let mut run = Run { end: at, number: 0 };
    for &b in s.get(at..).unwrap_or_default() {
        if !b.is_ascii_digit() {
            break;
        }
        run.number = grow(run.number, digit(b));
        run.end += 1;
    }
    run
}

// The number of the two digits at `at`, if both bytes are digits.
#[inline(always)]
#[tactic(auto, unfolding(crate::specs::Digits::two_digits_at))]
pub fn two_digits(s: &[u8], at: usize) -> Option<u64>
    ensures { result ≡ some_below 100 (two_digits_at s.now at) }
{
    match s.get(at..)? {
        [a @ b'0'..=b'9', b @ b'0'..=b'9', ..] => Some(digit(*a) * 10 + digit(*b)),
        _ => None,
    }
}

// Behind the sign at `at`, if one stands there.
#[tactic(auto, unfolding(crate::specs::Digits::behind_sign))]
pub fn behind_sign(s: &[u8], at: usize) -> usize
    ensures { result ≡ behind_sign s.now at }
{
    match s.get(at) {
        Some(b'+' | b'-') => at + 1,
        _ => at,
    }
}

// 10 to the k, and from 15 on 10 to the 15: no more digits are asked for.
#[inline(always)]
pub fn power(k: usize) -> u64
    ensures { result ≡ 10 ^ min k 15 }
{
    // Not `pow`, which multiplies for each call: an instant's nanoseconds and a double ask for one.
    match k {
        0 => 1,
        1 => 10,
        2 => 100,
        3 => 1000,
        4 => 10000,
        5 => 100000,
        6 => 1000000,
        7 => 10000000,
        8 => 100000000,
        9 => 1000000000,
        10 => 10000000000,
        11 => 100000000000,
        12 => 1000000000000,
        13 => 10000000000000,
        14 => 100000000000000,
        _ => 1000000000000000,
    }
}
