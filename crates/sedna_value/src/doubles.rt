// Doubles: type 22.
ghost use Rattle.std.specs.Prelude.{◌≡◌, ◌<◌, Err, length};
ghost use Rattle.sedna_value.specs.Doubles.{decimal_at, quotient, special_of, exponent_at, decided_of, double_of};
ghost use Rattle.sedna_value.specs.inner.Decimals.{FewDigits, DecimalFits};

use crate::Value;
use sedna_digits::{behind_sign, digits, power};
use wire::Refusal;

// Digits with a point among or beside them, or with none: how many stand before it and behind it, the number of each,
// and where they end.
#[derive(Clone, Copy)]
pub struct Decimal {
    pub before: usize,
    pub behind: usize,
    pub whole: u64,
    pub fraction: u64,
    pub end: usize,
}

#[tactic(auto, unfolding(crate::specs::Doubles::decimal_at))]
fn decimal_at(s: &[u8], at: usize) -> Decimal
    ensures { result ≡ decimal_at s.now at }
{
    let run = digits(s, at);
    let point = run.end;
    match s.get(point) {
        Some(b'.') => {
            let rest = digits(s, point + 1);
            Decimal {
                before: point - at,
                behind: rest.end - (point + 1),
                whole: run.number,
                fraction: rest.number,
                end: rest.end,
            }
        }
        _ => Decimal {
            before: point - at,
            behind: 0,
            whole: run.number,
            fraction: 0,
            end: point,
        },
    }
}

// The one rounded division of the digits by the power of ten, each a double exactly.
fn quotient_of(d: Decimal) -> f64
    requires { FewDigits d }
    ensures { result ≡ quotient d }
{
    let scale = power(d.behind);
    let all = d.whole * scale + d.fraction;
    (all as f64) / (scale as f64)
}

// INF, -INF and NaN are doubles, and no other text without a digit is.
#[tactic(auto, unfolding(crate::specs::Doubles::special_of))]
fn special(s: &[u8]) -> Refusal
    ensures { Err result ≡ special_of s.now }
{
    match s {
        b"INF" | b"-INF" | b"NaN" => Refusal::OutOfRange,
        _ => Refusal::NotOfForm,
    }
}

// An E or e, an optional sign and digits, with which the text ends.
#[tactic(auto, unfolding(crate::specs::Doubles::exponent_at))]
fn exponent(s: &[u8], at: usize) -> bool
    requires { at < length s.now }
    ensures { result ≡ exponent_at s.now at }
{
    // First: the digits of a text that has no exponent are not looked at.
    if !matches!(s[at], b'E' | b'e') {
        return false;
    }
    let start = behind_sign(s, at + 1);
    let end = digits(s, start).end;
    end != start && end == s.len()
}

// What a double is that has digits and no exponent: 16 for more than fifteen.
// A flag: the sign that stood in front.
fn decided(minus: bool, d: Decimal) -> Result<Value, Refusal>
    requires { DecimalFits d }
    ensures { result ≡ decided_of minus d }
{
    if 15 < d.before || 15 - d.before < d.behind {
        return Err(Refusal::OutOfRange);
    }
    let q = quotient_of(d);
    Ok(Value::Double(if minus { -q } else { q }))
}

#[tactic(auto, using(crate::proofs::Decimals::decimal_fits), unfolding(crate::specs::Doubles::double_of))]
pub fn double(s: &[u8]) -> Result<Value, Refusal>
    ensures { result ≡ double_of s.now }
{
    let at = behind_sign(s, 0);
    let d = decimal_at(s, at);
    if d.before == 0 && d.behind == 0 {
        return Err(special(s));
    }
    if d.end < s.len() {
        return Err(if exponent(s, d.end) {
            Refusal::OutOfRange
        } else {
            Refusal::NotOfForm
        });
    }
    decided(s.starts_with(b"-"), d)
}
