// Typed values, document 02, request 1: what the text of a 4.0 item of class 1 means by its type.
//
// No function here that is public has a `requires`: what has no value is refused, with 15 or 16.
#![tactic(auto)]

ghost use Rattle.std.specs.Prelude.{◌≡◌};
ghost use Rattle.sedna_value.specs.Values.{value_of};

use sedna_instant::Instant;
use wire::Refusal;

mod booleans;
mod doubles;
mod wholes;

#[derive(Clone, Copy)]
pub enum Value {
    Whole(i64),
    At(Instant),
    Boolean(bool),
    Double(f64),
}

// The value of an item's text: 15 for another class than 1, another type than those here, and a text that is not of
// its type's form; then 16 for one that is, and has no value.
#[tactic(auto, unfolding(crate::specs::Values::value_of))]
pub fn value_of(class: u8, kind: u8, text: &[u8]) -> Result<Value, Refusal>
    ensures { result ≡ value_of class kind text.now }
{
    if class != 1 {
        return Err(Refusal::NotOfForm);
    }
    match kind {
        10 => sedna_instant::read::instant(text).map(Value::At),
        22 => doubles::double(text),
        25 => booleans::boolean(text),
        24 | 50..=61 => wholes::whole(kind, text),
        _ => Err(Refusal::NotOfForm),
    }
}
