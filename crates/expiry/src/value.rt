// A value as a person reads it.
use sedna_instant::{Instant, compare};
use sedna_value::Value;
use std::cmp::Ordering;
use std::io::{self, Write};

fn order<W: Write>(to: &mut W, order: Ordering) -> io::Result<()> {
    let word = match order {
        Ordering::Less => "earlier than",
        Ordering::Equal => "the same as",
        Ordering::Greater => "later than",
    };
    write!(to, ", {word} the instant before")
}

// Prints a value; an instant with how it lies to the last one, and it is the last one then.
pub fn shown<W: Write>(to: &mut W, last: &mut Option<Instant>, value: Value) -> io::Result<()> {
    text_values::value(to, value)?;
    if let Value::At(at) = value {
        if let Some(before) = *last {
            order(to, compare(at, before))?;
        }
        *last = Some(at);
    }
    Ok(())
}
