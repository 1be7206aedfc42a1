// Programs that print an answer to each line of what they read.
use crate::cut::{Parts, front};
use crate::input;
use std::io::{self, Read, Write};
use wire::first;

pub trait Answers {
    // Prints the line and its answer.
    fn answer<W: Write>(&mut self, to: &mut W, line: &[u8]) -> io::Result<()>;

    // Says that there may be lines behind those that were read.
    fn more<W: Write>(&mut self, to: &mut W) -> io::Result<()> {
        to.write_all(b"  = lines behind the first 65,536 bytes are not read\n")
    }
}

// Line by line: each is answered before the next is read. Behind 4,096 bytes a line counts as a new one.
pub fn each_line<R: Read, W: Write, A: Answers>(
    from: &mut R,
    to: &mut W,
    program: &mut A,
) -> io::Result<()> {
    // An array: no heap, as in the library.
    let mut buffer = [0u8; 4096];
    // A loop has to end: this one after more lines than any input has.
    for _ in 0..u64::MAX {
        let n = input::line(from, &mut buffer);
        if n == 0 {
            break;
        }
        program.answer(to, front(first(&buffer, n), b'\n'))?;
    }
    Ok(())
}

// All at once, as far as there is room.
pub fn all_lines<R: Read, W: Write, A: Answers>(
    from: &mut R,
    to: &mut W,
    program: &mut A,
) -> io::Result<()> {
    let mut buffer = [0u8; 65536];
    let n = input::fill(from, &mut buffer);
    for line in Parts::of(first(&buffer, n), b'\n') {
        program.answer(to, line)?;
    }
    if n == buffer.len() {
        program.more(to)?;
    }
    Ok(())
}
