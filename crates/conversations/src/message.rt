// A small well formed message of each instruction, and both forms of the step on it.
use sedna::Shape;
use session::Session;
use std::io::{self, Write};
use wire::{Refusal, first};

// Writes the message; a session's parameters name the version.
fn write(out: &mut [u8], instruction: u32, shape: Shape, version: u8) -> Result<usize, Refusal> {
    match shape {
        Shape::Empty => sedna_write::write_empty(out, instruction),
        Shape::Session => sedna_write::write_session(out, instruction, version, 0, b"u", b"d"),
        Shape::Text => sedna_write::write_text(out, instruction, b"x"),
        Shape::Statement => sedna_write::write_statement(out, instruction, 0, b"x"),
        Shape::Coded => sedna_write::write_coded(out, instruction, 1, b"x"),
        Shape::Options => sedna_write::write_options(out, instruction, &[], &[], &[]),
        Shape::Item => sedna_write::write_item(out, instruction, 1, 24, b"x"),
    }
}

// Offers an instruction from the side that sends it to both forms of the step, and prints it with the
// refusal, if any, and whether the forms differ. One that the table lacks does not get here:
// `replay::readable` is asked first.
pub fn offer<W: Write>(
    to: &mut W,
    session: Session,
    version: u8,
    instruction: u32,
) -> io::Result<Session> {
    // An array: no heap, as in the library.
    let mut space = [0u8; 64];
    let Some((side, shape)) = sedna::find(instruction) else {
        return Ok(session);
    };
    let Ok(n) = write(&mut space, instruction, shape, version) else {
        return Ok(session);
    };
    let bytes = first(&space, n);
    let after = session::step(session, side, bytes);
    let kept = session_lent::step_kept(session, side, bytes);
    write!(to, " {instruction}")?;
    if let Err(r) = after.answer {
        let number = r.number();
        write!(to, "!{number}")?;
    }
    if after != kept {
        to.write_all(b" ?forms")?;
    }
    Ok(after.session)
}
