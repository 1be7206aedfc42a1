// What the programs print, into any writer: bytes in hexadecimal, strings.
use std::io::{self, Write};
use wire::first;

// In capitals, as the papers write them. A byte is one write: `{b:02X}` makes two where a 0 stands in front.
pub fn hex<W: Write>(out: &mut W, s: &[u8]) -> io::Result<()> {
    let digits = *b"0123456789ABCDEF";
    for b in s {
        out.write_all(&[digits[usize::from(*b / 16)], digits[usize::from(*b % 16)]])?;
    }
    Ok(())
}

// The first so many bytes in hexadecimal, and the count where there are more.
pub fn hex_front<W: Write>(out: &mut W, s: &[u8], most: usize) -> io::Result<()> {
    hex(out, first(s, most))?;
    count_above(out, most, s.len())
}

// The count of bytes of which only some are shown.
pub fn count_above<W: Write>(out: &mut W, shown: usize, n: usize) -> io::Result<()> {
    if shown < n {
        write!(out, " .. {n} bytes")?;
    }
    Ok(())
}

fn printable(b: u8) -> bool {
    matches!(b, 0x20..=0x7E) && b != b'"' && b != b'\\'
}

// In quotes where that is short and shows every byte, else in hexadecimal.
pub fn string<W: Write>(out: &mut W, s: &[u8]) -> io::Result<()> {
    if s.len() <= 40 && s.iter().all(|b| printable(*b)) {
        out.write_all(b"\"")?;
        out.write_all(s)?;
        return out.write_all(b"\"");
    }
    hex_front(out, s, 16)
}
