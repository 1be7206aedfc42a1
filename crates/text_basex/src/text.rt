// Decoded texts, which stand one behind the other in an output.
use std::io::{self, Write};
use text_lines::print::hex;
use wire::{Refusal, first, rest};

pub fn refused<W: Write>(to: &mut W, r: Refusal) -> io::Result<()> {
    let number = r.number();
    write!(to, " {number}")
}

// The texts that are not printed yet.
#[derive(Drop)]
pub struct Texts<'a> {
    pub left: &'a [u8],
}

impl<'a> Texts<'a> {
    // The next text, of so many bytes, behind a sign.
    pub fn field<W: Write>(&mut self, to: &mut W, len: usize, sign: char) -> io::Result<()> {
        let text = first(self.left, len);
        self.left = rest(self.left, len);
        write!(to, "{sign}")?;
        if text.is_empty() {
            to.write_all(b"-")
        } else {
            hex(to, text)
        }
    }
}
