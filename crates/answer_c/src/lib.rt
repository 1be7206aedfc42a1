// The numbers by which exported calls answer programs in C and Rust: below 2^63 a count, above it a
// refusal, its number on top of 2^63. No slice is so long, so the two are told apart.
#![tactic(auto)]

ghost use Rattle.std.specs.Prelude.{◌≡◌};
ghost use Rattle.answer_c.specs.Codes.{refusal_code, counted_code};

use wire::Refusal;

pub fn refusal_code(r: Refusal) -> u64
    ensures { result ≡ refusal_code r }
{
    9223372036854775808 + u64::from(r.number())
}

pub fn counted_code(answer: Result<usize, Refusal>) -> u64
    ensures { result ≡ counted_code answer }
{
    match answer {
        Ok(n) => n as u64,
        Err(r) => refusal_code(r),
    }
}
