// A text cut, written, read back and joined.
use crate::hand::join_said;
use crate::join::opened;
use crate::text::{MOST, number, refusal, value};
use parts_join::{Assembly, Open};
use std::io::{self, Write};
use text_lines::cut::{behind, front};
use wire::{Refusal, first};

// What is cut; a URL by its length.
#[derive(Clone, Copy)]
enum Cut {
    Statement { format: u8 },
    Item,
    Typed { class: u8, kind: u8 },
    WithUrl { class: u8, kind: u8, url: usize },
}

// How many messages n bytes are cut into.
fn count(cut: Cut, n: usize) -> Result<usize, Refusal> {
    match cut {
        Cut::Statement { .. } => Ok(parts_cut::statement_parts(n)),
        Cut::Item => Ok(parts_cut::item_parts(n)),
        Cut::Typed { .. } => Ok(parts_cut::typed_item_parts(n)),
        Cut::WithUrl { url, .. } => parts_cut::typed_item_url_parts(n, url),
    }
}

fn write_with_url(
    out: &mut [u8],
    class: u8,
    kind: u8,
    n: usize,
    text: &[u8],
    k: usize,
) -> Result<usize, Refusal> {
    let urls = [b'u'; MOST];
    parts_cut::write_typed_item_url_part(out, class, kind, first(&urls, n), text, k)
}

// Writes part k.
fn write(out: &mut [u8], cut: Cut, text: &[u8], k: usize) -> Result<usize, Refusal> {
    match cut {
        Cut::Statement { format } => parts_cut::write_statement_part(out, format, text, k),
        Cut::Item => parts_cut::write_item_part(out, text, k),
        Cut::Typed { class, kind } => parts_cut::write_typed_item_part(out, class, kind, text, k),
        Cut::WithUrl { class, kind, url } => write_with_url(out, class, kind, url, text, k),
    }
}

// Reads a message back as from its sender, and joins it.
fn joined<W: Write>(
    to: &mut W,
    a: Assembly,
    buffer: &mut [u8],
    bytes: &[u8],
    text: &[u8],
) -> io::Result<Assembly> {
    let instruction = wire::get_int(bytes, 0);
    let body = wire::get_int(bytes, 4);
    write!(to, " {instruction}:{body}")?;
    let Some((side, _)) = sedna::find(instruction) else {
        return Ok(a);
    };
    match sedna_read::read(side, bytes) {
        Ok(reading) => Ok(join_said(to, a, buffer, instruction, reading.places, bytes, text)),
        Err(r) => {
            refusal(to, r)?;
            Ok(a)
        }
    }
}

// Part k.
fn part<W: Write>(
    to: &mut W,
    a: Assembly,
    buffer: &mut [u8],
    cut: Cut,
    text: &[u8],
    k: usize,
) -> io::Result<Assembly> {
    // An array: no heap, as in the library.
    let mut out = [0u8; 10248];
    to.write_all(b";")?;
    match write(&mut out, cut, text, k) {
        Ok(n) => joined(to, a, buffer, first(&out, n), text),
        Err(r) => {
            refusal(to, r)?;
            Ok(a)
        }
    }
}

// All parts and the one beyond the last; an item's end.
fn parts<W: Write>(
    to: &mut W,
    open: Assembly,
    buffer: &mut [u8],
    cut: Cut,
    text: &[u8],
    count: usize,
) -> io::Result<()> {
    let mut a = open;
    for k in 0..count {
        a = part(to, a, buffer, cut, text, k)?;
    }
    a = part(to, a, buffer, cut, text, count)?;
    if !matches!(cut, Cut::Statement { .. }) {
        to.write_all(b";")?;
        joined(to, a, buffer, &[0, 0, 1, 114, 0, 0, 0, 0], text)?;
    }
    Ok(())
}

// The words are LENGTH ROOM. Where the count is refused part 0 is tried, as if beyond the last.
fn cutting<W: Write>(
    to: &mut W,
    open: Assembly,
    cut: Cut,
    pattern: &[u8],
    words: &[u8],
) -> io::Result<()> {
    let mut buffer = [0u8; MOST];
    let (Some(length), Some(room)) = (number(front(words, b' ')), number(behind(words, b' ')))
    else {
        return to.write_all(b" ?");
    };
    let Some(lent) = buffer.get_mut(..room) else {
        return to.write_all(b" ?");
    };
    let text = first(pattern, length);
    to.write_all(b": parts")?;
    let n = match count(cut, length) {
        Ok(n) => {
            write!(to, " {n}")?;
            n
        }
        Err(r) => {
            refusal(to, r)?;
            0
        }
    };
    parts(to, open, lent, cut, text, n)
}

// The words are TYPE URL LENGTH ROOM.
fn typed<W: Write>(
    to: &mut W,
    open: Assembly,
    class: u8,
    pattern: &[u8],
    words: &[u8],
) -> io::Result<()> {
    let kind = value(front(words, b' '), 255);
    let url = behind(words, b' ');
    let rest = behind(url, b' ');
    match front(url, b' ') {
        [b'-'] => cutting(to, open, Cut::Typed { class, kind }, pattern, rest),
        word => {
            // One that is too long is cut all the same, and refused.
            let url = number(word).unwrap_or(MOST + 1);
            cutting(to, open, Cut::WithUrl { class, kind, url }, pattern, rest)
        }
    }
}

// Cuts what a line tells behind its kind.
pub fn answered<W: Write>(to: &mut W, kind: &[u8], pattern: &[u8], words: &[u8]) -> io::Result<()> {
    let format = value(front(words, b' '), 255);
    let rest = behind(words, b' ');
    let open = opened(to, kind)?;
    match open.what {
        Open::Nothing => Ok(()),
        Open::Statement => cutting(to, open, Cut::Statement { format }, pattern, rest),
        Open::Item => cutting(to, open, Cut::Item, pattern, words),
        Open::TypedItem => typed(to, open, format, pattern, rest),
    }
}
