// Whole numbers: types 24 and 50 to 61.
ghost use Rattle.std.specs.Prelude.{◌≡◌};
ghost use Rattle.sedna_value.specs.Wholes.{least_of, greatest_of, signed_of, ranged_of, whole_of};

use crate::Value;
use sedna_digits::{behind_sign, digits};
use wire::Refusal;

// The least number of a type, as far as 64 bits with a sign hold it.
fn least(kind: u8) -> i64
    ensures { result ≡ least_of kind }
{
    match kind {
        24 | 50..=52 => i64::MIN,
        53 => i64::from(i32::MIN),
        54 => i64::from(i16::MIN),
        55 => i64::from(i8::MIN),
        61 => 1,
        _ => 0,
    }
}

// The greatest number of a type, likewise.
fn greatest(kind: u8) -> i64
    ensures { result ≡ greatest_of kind }
{
    match kind {
        50 => 0,
        51 => -1,
        53 => i64::from(i32::MAX),
        54 => i64::from(i16::MAX),
        55 => i64::from(i8::MAX),
        58 => i64::from(u32::MAX),
        59 => i64::from(u16::MAX),
        60 => i64::from(u8::MAX),
        _ => i64::MAX,
    }
}

// The least is made without its magnitude, which does not fit.
// A flag: the sign that stood in front.
#[tactic(auto, unfolding(crate::specs::Wholes::signed_of))]
fn with_sign(minus: bool, n: u64) -> Option<i64>
    ensures { result ≡ signed_of minus n }
{
    match i64::try_from(n) {
        Ok(m) => Some(if minus { -m } else { m }),
        Err(_) if minus && n == i64::MIN.unsigned_abs() => Some(i64::MIN),
        Err(_) => None,
    }
}

// 16 where the number is out of its type's range.
fn ranged(kind: u8, n: Option<i64>) -> Result<Value, Refusal>
    ensures { result ≡ ranged_of kind n }
{
    match n {
        Some(i) if least(kind) <= i && i <= greatest(kind) => Ok(Value::Whole(i)),
        _ => Err(Refusal::OutOfRange),
    }
}

// An optional sign and digits, and nothing else.
#[tactic(auto, unfolding(crate::specs::Wholes::whole_of))]
pub fn whole(kind: u8, s: &[u8]) -> Result<Value, Refusal>
    ensures { result ≡ whole_of kind s.now }
{
    let at = behind_sign(s, 0);
    let run = digits(s, at);
    if run.end == at || run.end < s.len() {
        return Err(Refusal::NotOfForm);
    }
    ranged(kind, with_sign(s.starts_with(b"-"), run.number))
}
