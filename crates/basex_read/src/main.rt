// Reads records from standard input: a byte, a length in four bytes, low byte first, and so many
// bytes. The byte is the first byte of the request whose response the bytes are (20 for COMMAND), or
// FF where they are a request themselves. Prints a line for each record:
//     NUMBER BYTE REFUSAL
//     NUMBER BYTE 0 READ STATUS FIELD ..      a response; an item is ID:TEXT or ID:URI:TEXT, and with
//                                             status 01 the last field is the error, !TEXT
//     NUMBER FF 0 READ KIND FIELD ..          a request
// in hexadecimal but for numbers, refusals, counts and ids; an empty text is `-`. The last line is
// `end`, or `damaged` at a cut record, one above 65,536 bytes or a read that fails, where it stops.
#![tactic(auto)]

use std::io::{self, Read, Write};
use text_lines::input::fill;
use text_lines::output::Output;
use text_lines::print::hex;

fn line<W: Write>(
    to: &mut W,
    number: u64,
    kind: u8,
    bytes: &[u8],
    out: &mut [u8],
) -> io::Result<()> {
    write!(to, "{number} ")?;
    hex(to, &[kind])?;
    text_basex::show(to, kind, bytes, out)?;
    to.write_all(b"\n")
}

// What stands where a record may start: a whole head, the input's end, or what cannot be read. Three
// ways, one more than an Option or a Result has.
enum Start {
    Head,
    End,
    Damaged,
}

// The first read tells a failure from the input's end. Where a later one fails, fewer bytes came
// than were asked for, as where the input ends: the record is cut.
fn read_head<R: Read>(from: &mut R, head: &mut [u8]) -> Start {
    match from.read(head) {
        Err(_) => Start::Damaged,
        Ok(0) => Start::End,
        Ok(got) => {
            let left = head.len() - got;
            if fill(from, &mut head[got..]) < left {
                Start::Damaged
            } else {
                Start::Head
            }
        }
    }
}

// Reads the bytes that a head tells, as far as there is room for them.
fn read_bytes<'a, R: Read>(from: &mut R, head: [u8; 5], space: &'a mut [u8]) -> Option<&'a [u8]> {
    let n = u32::from_le_bytes([head[1], head[2], head[3], head[4]]) as usize;
    if space.len() < n || fill(from, &mut space[..n]) < n {
        return None;
    }
    Some(&space[..n])
}

// Records one after another, up to the first that is none.
fn answer<R: Read, W: Write>(from: &mut R, to: &mut W) -> io::Result<()> {
    // An array: no heap, as in the library.
    let mut space = [0u8; 65536];
    // decoded texts are never longer than the bytes they are read from
    let mut out = [0u8; 65536];
    for number in 1..u64::MAX {
        let mut head = [0u8; 5];
        match read_head(from, &mut head) {
            Start::End => return to.write_all(b"end\n"),
            Start::Damaged => return to.write_all(b"damaged\n"),
            Start::Head => {}
        }
        let Some(bytes) = read_bytes(from, head, &mut space) else {
            return to.write_all(b"damaged\n");
        };
        line(to, number, head[0], bytes, &mut out)?;
    }
    Ok(())
}

fn main(rt: HostRuntime) -> io::Result<()> {
    answer(
        &mut rt.stdin(),
        &mut Output {
            to: io::writer(&rt),
        },
    )
}
