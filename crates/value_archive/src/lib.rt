// The static library for programs in C and Rust: each export calls the function of its name in
// value_c, under the same contract.
#![tactic(auto)]

ghost use Rattle.std.specs.Prelude.{◌≡◌};
ghost use Rattle.value_c.specs.Values.{outcome, ComesTo};
ghost use Rattle.value_c.specs.Orders.{compared};

#[unsafe(no_mangle)]
pub extern "C" fn kdr_value(
    class: u8,
    kind: u8,
    text: &[u8],
    numbers: &mut [i64],
    doubles: &mut [f64],
) -> u64
    ensures { ComesTo (outcome class kind text.now numbers.old doubles.old) result
        numbers.new doubles.new }
{
    value_c::kdr_value(class, kind, text, numbers, doubles)
}

#[unsafe(no_mangle)]
pub extern "C" fn kdr_compare(
    a_seconds: i64,
    a_nanoseconds: u32,
    b_seconds: i64,
    b_nanoseconds: u32,
) -> i32
    ensures { result ≡ compared a_seconds a_nanoseconds b_seconds b_nanoseconds }
{
    value_c::kdr_compare(a_seconds, a_nanoseconds, b_seconds, b_nanoseconds)
}
