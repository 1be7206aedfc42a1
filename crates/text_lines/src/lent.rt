// Output that was lent blank: whether a call left alone what it did not write.
use crate::names;
use std::io::{self, Write};
use wire::{Refusal, rest};

// Lent output holds this in every byte before it is written.
pub const BLANK: u8 = 0xEE;

fn untouched<W: Write>(out: &mut W, s: &[u8]) -> io::Result<()> {
    let left = s.iter().all(|b| *b == BLANK);
    out.write_all(if left { b" untouched" } else { b" CHANGED" })
}

// Behind a refusal all of it.
pub fn refused<W: Write>(out: &mut W, r: Refusal, lent: &[u8]) -> io::Result<()> {
    names::refused(out, r)?;
    out.write_all(b", output")?;
    untouched(out, lent)
}

// Behind n bytes the rest.
pub fn behind<W: Write>(out: &mut W, lent: &[u8], n: usize) -> io::Result<()> {
    out.write_all(b", rest")?;
    untouched(out, rest(lent, n))
}
