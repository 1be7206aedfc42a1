// Reads lines of BaseX vectors from standard input, and prints each with what the library answers:
//     spell ROOM HEX                a text written as a BaseX string, and a string read
//     spelt ROOM HEX
//     request ROOM HEX              a BaseX request read, and one written: kind K and up to four texts
//     ask ROOM K HEX / HEX / ..
//     response ROOM K HEX           the response to a request of kind K read
//     entry ROOM K ID HEX / HEX     an item of one written, with URI and text
//     answer ROOM K STATUS HEX / HEX / HEX     all else of one: two strings, and the error
// HEX is pairs of digits with spaces between, or nothing; 41*10235 is 10,235 bytes 41. ROOM and the
// bytes of a line are 12,000 at most. An empty line and one that starts with # are printed as they are.
#![tactic(auto)]

mod answer;

use std::io::{self, Write};
use text_lines::answers::{Answers, all_lines};
use text_lines::cut::{behind, front};
use text_lines::input::asks;
use text_lines::output::Output;

#[derive(Drop)]
struct Vectors;

impl Answers for Vectors {
    fn answer<W: Write>(&mut self, to: &mut W, line: &[u8]) -> io::Result<()> {
        to.write_all(line)?;
        to.write_all(b"\n")?;
        if !asks(line) {
            return Ok(());
        }
        to.write_all(b"  = ")?;
        if !answer::line(to, front(line, b' '), behind(line, b' '))? {
            to.write_all(b"no such line")?;
        }
        to.write_all(b"\n")
    }
}

fn main(rt: HostRuntime) -> io::Result<()> {
    all_lines(
        &mut rt.reader(),
        &mut Output {
            to: io::writer(&rt),
        },
        &mut Vectors,
    )
}
