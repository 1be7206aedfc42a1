// Reads lines of Sedna vectors from standard input, and prints each with what the library answers:
//     C HEX, S HEX                  a message that the client or the server sent, read
//     empty ROOM I                  a message of instruction I, written into ROOM bytes
//     text ROOM I HEX
//     statement ROOM I FORMAT HEX
//     coded ROOM I CODE HEX
//     session ROOM I MAJOR MINOR HEX / HEX
//     item ROOM I CLASS TYPE HEX
//     itemurl ROOM I CLASS TYPE HEX / HEX
//     options ROOM I ID HEX / ID HEX / ..
// HEX is pairs of digits with spaces between, or nothing; 41*10235 is 10,235 bytes 41. ROOM and the
// bytes of a line are 12,000 at most. An empty line and one that starts with # are printed as they are.
#![tactic(auto)]

mod ask;
mod fields;
mod written;

use sedna::Side;
use std::io::{self, Write};
use text_lines::answers::{Answers, all_lines};
use text_lines::cut::{behind, front};
use text_lines::input::asks;
use text_lines::output::Output;
use text_lines::parse::SPACE;
use wire::first;

fn read<W: Write>(to: &mut W, side: Side, text: &[u8]) -> io::Result<bool> {
    // An array: no heap, as in the library.
    let mut space = [0u8; SPACE];
    let Some(n) = text_lines::parse::bytes(text, &mut space, 0) else {
        return Ok(false);
    };
    text_sedna::show::read(to, side, first(&space, n))?;
    Ok(true)
}

// Whether the line is one of those above; its answer is printed.
fn answered<W: Write>(to: &mut W, line: &[u8]) -> io::Result<bool> {
    let rest = behind(line, b' ');
    match front(line, b' ') {
        [b'C'] => read(to, Side::Client, rest),
        [b'S'] => read(to, Side::Server, rest),
        kind => ask::write(to, kind, rest),
    }
}

#[derive(Drop)]
struct Vectors;

impl Answers for Vectors {
    fn answer<W: Write>(&mut self, to: &mut W, line: &[u8]) -> io::Result<()> {
        to.write_all(line)?;
        to.write_all(b"\n")?;
        if !asks(line) {
            return Ok(());
        }
        to.write_all(b"  = ")?;
        if !answered(to, line)? {
            to.write_all(b"no such line")?;
        }
        to.write_all(b"\n")
    }
}

fn main(rt: HostRuntime) -> io::Result<()> {
    all_lines(
        &mut rt.reader(),
        &mut Output {
            to: io::writer(&rt),
        },
        &mut Vectors,
    )
}
