// Reads lines of items from standard input, and prints each with the value that the library gives:
//     CLASS TYPE TEXT = ANSWER
// TEXT is pairs of hexadecimal digits, or - for none; 30*100 is 100 bytes 30. ANSWER is `whole N`, `instant SECONDS
// NANOS`, `yes`, `no`, `double` and the sixteen digits of its bits, or `refused N`; ? for a line that is not of this
// form. An empty line and one that starts with # are printed as they are. Behind 4,096 bytes a line counts as a new one.
#![tactic(auto)]

use sedna_value::Value;
use std::io::{self, Write};
use text_lines::answers::{Answers, each_line};
use text_lines::cut::{behind, front};
use text_lines::input::asks;
use text_lines::output::Output;
use text_lines::parse::SPACE;
use wire::{Refusal, first};

// Puts the text that a word spells into out; how many bytes it has.
fn text_of(word: &[u8], out: &mut [u8]) -> Option<usize> {
    match word {
        [] => None,
        [b'-'] => Some(0),
        _ => text_lines::parse::bytes(word, out, 0),
    }
}

// The value of the item on a line of the form above.
fn asked(line: &[u8]) -> Option<Result<Value, Refusal>> {
    // An array: no heap, as in the library.
    let mut space = [0u8; SPACE];
    let rest = behind(line, b' ');
    let class = text_lines::parse::decimal_byte(front(line, b' '))?;
    let kind = text_lines::parse::decimal_byte(front(rest, b' '))?;
    let n = text_of(behind(rest, b' '), &mut space)?;
    Some(sedna_value::value_of(class, kind, first(&space, n)))
}

#[derive(Drop)]
struct Values;

impl Answers for Values {
    fn answer<W: Write>(&mut self, to: &mut W, line: &[u8]) -> io::Result<()> {
        to.write_all(line)?;
        if asks(line) {
            to.write_all(b" = ")?;
            match asked(line) {
                Some(valued) => text_values::valued(to, valued)?,
                None => to.write_all(b"?")?,
            }
        }
        to.write_all(b"\n")
    }
}

fn main(rt: HostRuntime) -> io::Result<()> {
    each_line(
        &mut rt.reader(),
        &mut Output {
            to: io::writer(&rt),
        },
        &mut Values,
    )
}
