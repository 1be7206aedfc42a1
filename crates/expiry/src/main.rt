// Shows an item from its messages to its value, for each line of standard input:
//     TYPE TEXT
//     TYPE *N TEXT
// with N zeros in front of the text, 32,768 bytes in all at most. The item, of class 1 in 4.0, is cut into messages; each
// is written, read back and joined in a buffer; and class, type and the part of the buffer that joining hands over give
// the value. Printed are the line, how many messages there were, and the value or the refusal: an instant in seconds and
// nanoseconds, with how it lies to the last one that was printed, and a double by the sixteen digits of its bits. ? stands
// behind a line of another form. An empty line and one that starts with # are printed as they are. Behind 4,096 bytes a
// line counts as a new one.
#![tactic(auto)]

mod item;
mod value;

use parts_join::Answer;
use sedna_instant::Instant;
use sedna_value::Value;
use std::io::{self, Write};
use text_lines::answers::{Answers, each_line};
use text_lines::cut::{behind, front};
use text_lines::input::asks;
use text_lines::output::Output;
use text_lines::parse::{decimal, decimal_byte};
use wire::{Refusal, first};

const MOST: usize = 32768;

// What the item means that was sent; nothing where the end did not finish one.
fn meant(kind: u8, text: &[u8]) -> Result<Option<Value>, Refusal> {
    // An array: no heap, as in the library.
    let mut buffer = [0u8; MOST];
    match item::sent(&mut buffer, kind, text)? {
        Answer::TypedItem { class, kind, len } => {
            Ok(Some(sedna_value::value_of(class, kind, first(&buffer, len))?))
        }
        _ => Ok(None),
    }
}

// Sends the item and prints what it means.
fn sent<W: Write>(to: &mut W, last: &mut Option<Instant>, kind: u8, text: &[u8]) -> io::Result<()> {
    let n = item::messages(text);
    write!(to, ": {n} messages, ")?;
    match meant(kind, text) {
        Ok(Some(value)) => value::shown(to, last, value),
        Ok(None) => Ok(()),
        Err(r) => text_values::refusal(to, r),
    }
}

// The type, how many zeros stand in front of the text, and the rest of it.
fn asked(line: &[u8]) -> Option<(u8, usize, &[u8])> {
    let kind = decimal_byte(front(line, b' '))?;
    let all = behind(line, b' ');
    match all {
        [b'*', ..] => {
            let zeros = decimal(behind(front(all, b' '), b'*'))?;
            Some((kind, zeros as usize, behind(all, b' ')))
        }
        _ => Some((kind, 0, all)),
    }
}

// The last instant that was printed.
#[derive(Drop)]
struct Expiry {
    last: Option<Instant>,
}

impl Expiry {
    fn asked<W: Write>(&mut self, to: &mut W, line: &[u8]) -> io::Result<()> {
        match asked(line) {
            Some((kind, zeros, rest)) if wire::has_room(MOST, zeros, rest.len()) => {
                // Here: a line of another form fills none.
                let mut text = [b'0'; MOST];
                wire::put_bytes(&mut text, zeros, rest);
                sent(to, &mut self.last, kind, first(&text, zeros + rest.len()))
            }
            _ => to.write_all(b" ?"),
        }
    }
}

impl Answers for Expiry {
    fn answer<W: Write>(&mut self, to: &mut W, line: &[u8]) -> io::Result<()> {
        to.write_all(line)?;
        if asks(line) {
            self.asked(to, line)?;
        }
        to.write_all(b"\n")
    }
}

fn main(rt: HostRuntime) -> io::Result<()> {
    let mut program = Expiry { last: None };
    each_line(
        &mut rt.reader(),
        &mut Output {
            to: io::writer(&rt),
        },
        &mut program,
    )
}
