// Booleans: type 25.
ghost use Rattle.std.specs.Prelude.{◌≡◌};
ghost use Rattle.sedna_value.specs.Booleans.{boolean_of};

use crate::Value;
use wire::Refusal;

// Four texts and no others: true, false, 1 and 0.
#[tactic(auto, unfolding(crate::specs::Booleans::boolean_of))]
pub fn boolean(s: &[u8]) -> Result<Value, Refusal>
    ensures { result ≡ boolean_of s.now }
{
    match s {
        b"true" | b"1" => Ok(Value::Boolean(true)),
        b"false" | b"0" => Ok(Value::Boolean(false)),
        _ => Err(Refusal::NotOfForm),
    }
}
