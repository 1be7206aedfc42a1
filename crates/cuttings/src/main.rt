// Cuts and joins what the lines of standard input say, and prints each line with what happens:
//     statement FORMAT LENGTH ROOM
//     item LENGTH ROOM
//     typed CLASS TYPE URL LENGTH ROOM
// cuts a text of LENGTH bytes and joins it in a buffer of ROOM bytes. URL is its length, or - for
// none. Printed are the count of the parts; each part as INSTRUCTION:BODYLENGTH, read back from what
// was written, with the answer of its join; the refusal of the part one beyond the last; and for an
// item the answer to its end.
//     join OPENING ROOM M M ..
// joins messages as they are told. OPENING is statement, item, typed or none; so may M be, and opens
// anew, or it is INSTRUCTION:LENGTH:VALUE:VALUE. The values are a format, a class and a type, or a
// version; left out they are 0, 1 and 24, or 4 and 0. What is no byte counts as 255.
// A join is answered by ok, !REFUSAL, or =LENGTH,VALUE,VALUE for what is finished, with same or other
// for whether the part of the buffer that is handed over is the text. Lengths and rooms go up to
// 32,768; ? stands behind what is not understood. An empty line and one that starts with # are printed
// as they are.
#![tactic(auto)]

mod cut;
mod hand;
mod join;
mod text;

use std::io::{self, Write};
use text_lines::answers::{Answers, all_lines};
use text_lines::cut::{behind, front};
use text_lines::input::asks;
use text_lines::output::Output;

// The pattern is long enough for what a buffer holds and one more message, each of 32,769 bytes at most.
#[derive(Drop)]
struct Cuttings<'a> {
    pattern: &'a [u8],
}

impl Answers for Cuttings<'_> {
    fn answer<W: Write>(&mut self, to: &mut W, line: &[u8]) -> io::Result<()> {
        let kind = front(line, b' ');
        let words = behind(line, b' ');
        if kind == b"join".as_slice() {
            join::answered(to, self.pattern, words)?;
        } else {
            to.write_all(line)?;
            if asks(line) {
                cut::answered(to, kind, self.pattern, words)?;
            }
        }
        to.write_all(b"\n")
    }

    // Nothing is said of it.
    fn more<W: Write>(&mut self, _to: &mut W) -> io::Result<()> {
        Ok(())
    }
}

// The input is 65,536 bytes at most.
fn main(rt: HostRuntime) -> io::Result<()> {
    // An array: no heap, as in the library. Lent, so that it stands on the stack once.
    let mut pattern = [0u8; 65538];
    text::fill(&mut pattern);
    all_lines(
        &mut rt.reader(),
        &mut Output {
            to: io::writer(&rt),
        },
        &mut Cuttings { pattern: &pattern },
    )
}
