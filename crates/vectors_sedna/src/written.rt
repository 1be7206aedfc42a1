// What writing answers: the refusal, or the bytes; and whether it left the other bytes alone.
use std::io::{self, Write};
use text_lines::lent;
use text_lines::print::{count_above, hex};
use wire::{Refusal, first, rest};

pub fn show<W: Write>(to: &mut W, w: Result<usize, Refusal>, out: &[u8]) -> io::Result<()> {
    match w {
        Err(r) => lent::refused(to, r, out),
        Ok(n) => {
            write!(to, "{n} written: ")?;
            message(to, first(out, n))?;
            lent::behind(to, out, n)
        }
    }
}

// A message's first 32 bytes, with the two ints of its head apart.
fn message<W: Write>(to: &mut W, bytes: &[u8]) -> io::Result<()> {
    hex(to, first(bytes, 4))?;
    to.write_all(b" ")?;
    hex(to, first(rest(bytes, 4), 4))?;
    if 8 < bytes.len() {
        to.write_all(b" ")?;
        hex(to, first(rest(bytes, 8), 24))?;
    }
    count_above(to, 32, bytes.len())
}
