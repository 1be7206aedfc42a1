// Typed values for programs in C and Rust (document 02, request 1): what the text of an item of 4.0
// means by its type, told in two numbers and a double, and which of two instants is earlier.
#![tactic(auto)]

ghost use Rattle.std.specs.Prelude.{◌≡◌};
ghost use Rattle.value_c.specs.Values.{numbers_of, lent_outcome, outcome, ComesTo};
ghost use Rattle.value_c.specs.Orders.{order_number, compared};

use answer_c::refusal_code;
use sedna_instant::Instant;
use sedna_value::Value;
use std::cmp::Ordering;
use wire::Refusal;

// A value in numbers: what it is, two whole numbers and a double. Those that it does not use are 0.
#[derive(Clone, Copy)]
struct ValueNumbers {
    what: u64,
    first: i64,
    second: i64,
    double: f64,
}

impl From<Value> for ValueNumbers {
    ghost from_gives = { λ v n. n ≡ numbers_of v };

    fn from(value: Value) -> ValueNumbers {
        let (what, first, second, double) = match value {
            Value::Whole(n) => (1, n, 0, 0.0),
            Value::At(t) => (2, t.seconds, i64::from(t.nanos), 0.0),
            Value::Boolean(b) => (3, i64::from(b), 0, 0.0),
            Value::Double(x) => (4, 0, 0, x),
        };
        ValueNumbers {
            what,
            first,
            second,
            double,
        }
    }
}

// 10 where there is no room to tell it, behind every refusal of the text.
#[tactic(auto, unfolding(crate::specs::Values::lent_outcome))]
fn tell(numbers: &mut [i64], doubles: &mut [f64], value: Value) -> u64
    ensures { ComesTo (lent_outcome (numbers_of value) numbers.old doubles.old) result numbers.new doubles.new }
{
    if numbers.len() < 2 || doubles.is_empty() {
        return refusal_code(Refusal::NoRoom);
    }
    let told = ValueNumbers::from(value);
    numbers[0] = told.first;
    numbers[1] = told.second;
    doubles[0] = told.double;
    told.what
}

// The value of an item's text, by its class and type. The answer is what it is: 1 a whole number,
// 2 an instant, 3 a yes or no, 4 a double.
#[tactic(auto, unfolding(crate::specs::Values::outcome))]
pub fn kdr_value(class: u8, kind: u8, text: &[u8], numbers: &mut [i64], doubles: &mut [f64]) -> u64
    ensures { ComesTo (outcome class kind text.now numbers.old doubles.old) result
        numbers.new doubles.new }
{
    match sedna_value::value_of(class, kind, text) {
        Err(r) => refusal_code(r),
        Ok(value) => tell(numbers, doubles, value),
    }
}

// Numbers, written out: C's programs compare with them.
fn order_number(o: Ordering) -> i32
    ensures { result ≡ order_number o }
{
    match o {
        Ordering::Less => -1,
        Ordering::Equal => 0,
        Ordering::Greater => 1,
    }
}

// How the first instant lies to the second, as C's comparison functions say it: -1 earlier, 0 the
// same, 1 later.
pub fn kdr_compare(a_seconds: i64, a_nanoseconds: u32, b_seconds: i64, b_nanoseconds: u32) -> i32
    ensures { result ≡ compared a_seconds a_nanoseconds b_seconds b_nanoseconds }
{
    let a = Instant {
        seconds: a_seconds,
        nanos: a_nanoseconds,
    };
    let b = Instant {
        seconds: b_seconds,
        nanos: b_nanoseconds,
    };
    order_number(sedna_instant::compare(a, b))
}
