// A request: its kind, and its strings.
use crate::text::{Texts, refused};
use basex_request::Requested;
use std::io::{self, Write};
use text_lines::print::hex;

fn strings_of(kind: u8) -> usize {
    match basex::find(kind) {
        Some((n, _)) => n,
        None => 0,
    }
}

fn print<W: Write>(to: &mut W, request: Requested, texts: &mut Texts<'_>) -> io::Result<()> {
    let kind = request.kind;
    let read = request.read;
    write!(to, " 0 {read} ")?;
    hex(to, &[kind])?;
    let lengths = [request.first, request.second, request.third, request.fourth];
    for len in lengths.into_iter().take(strings_of(kind)) {
        texts.field(to, len, ' ')?;
    }
    Ok(())
}

// Answers how many bytes of the output the texts take.
pub fn show<W: Write>(to: &mut W, bytes: &[u8], out: &mut [u8]) -> io::Result<usize> {
    match basex_request::read_request(bytes, out) {
        Err(r) => {
            refused(to, r)?;
            Ok(0)
        }
        Ok(request) => {
            let mut texts = Texts { left: out };
            print(to, request, &mut texts)?;
            Ok(out.len().saturating_sub(texts.left.len()))
        }
    }
}
