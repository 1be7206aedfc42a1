// The lines: strings, requests and responses, read and written.
use basex_string::StringAt;
use std::io::{self, Write};
use text_lines::cut::{behind, front, position, skip};
use text_lines::lent::{self, BLANK};
use text_lines::parse::{SPACE, bytes, decimal, decimal_byte};
use text_lines::print::{hex, hex_front};
use wire::{Place, Refusal, first, part};

// Where four texts that one line spells end, one behind the other.
#[derive(Clone, Copy)]
struct Four {
    first: usize,
    second: usize,
    third: usize,
    fourth: usize,
}

// Up to four texts with a `/` between them; those that are missing are empty.
fn spelt(text: &[u8], space: &mut [u8]) -> Option<Four> {
    let second = behind(text, b'/');
    let third = behind(second, b'/');
    let a = bytes(front(text, b'/'), space, 0)?;
    let b = bytes(front(second, b'/'), space, a)?;
    let c = bytes(front(third, b'/'), space, b)?;
    let d = bytes(behind(third, b'/'), space, c)?;
    Some(Four {
        first: a,
        second: b,
        third: c,
        fourth: d,
    })
}

// The part of the space from one end to the next.
fn between(space: &[u8], from: usize, to: usize) -> &[u8] {
    part(
        space,
        Place {
            start: from,
            len: to.saturating_sub(from),
        },
    )
}

// A byte that two digits spell.
fn byte(word: &[u8]) -> Option<u8> {
    // An array: no heap, as in the library.
    let mut space = [0u8; 2];
    if bytes(word, &mut space, 0)? == 1 {
        Some(space[0])
    } else {
        None
    }
}

// What writing answers, and the bytes that it wrote.
fn show_written<W: Write>(to: &mut W, w: Result<usize, Refusal>, out: &[u8]) -> io::Result<()> {
    match w {
        Err(r) => lent::refused(to, r, out),
        Ok(n) => {
            write!(to, "{n} written: ")?;
            hex_front(to, first(out, n), 48)?;
            lent::behind(to, out, n)
        }
    }
}

// What reading a string answers, and its text.
fn show_text<W: Write>(to: &mut W, w: Result<StringAt, Refusal>, out: &[u8]) -> io::Result<()> {
    match w {
        Err(r) => lent::refused(to, r, out),
        Ok(StringAt { len, next }) => {
            write!(to, "{next} read: ")?;
            hex(to, first(out, len))?;
            lent::behind(to, out, len)
        }
    }
}

// Reading a response to a kind of request, or, for FF, a request.
fn show_read<W: Write>(to: &mut W, kind: u8, source: &[u8], out: &mut [u8]) -> io::Result<()> {
    to.write_all(b"answer")?;
    let n = text_basex::show(to, kind, source, out)?;
    lent::behind(to, out, n)
}

// Whether a line is one that is told here.
type Told = io::Result<bool>;

// A line that is one text, behind a kind where it is a response.
fn plain<W: Write>(to: &mut W, word: usize, kind: u8, text: &[u8], out: &mut [u8]) -> Told {
    let mut space = [0u8; SPACE];
    let Some(n) = bytes(text, &mut space, 0) else {
        return Ok(false);
    };
    let source = first(&space, n);
    match word {
        0 => show_written(to, basex_string::write_string(out, 0, source), out)?,
        1 => show_text(to, basex_string::decode(source, 0, out, 0), out)?,
        _ => show_read(to, kind, source, out)?,
    }
    Ok(true)
}

// A request written.
fn ask<W: Write>(to: &mut W, kind: u8, text: &[u8], out: &mut [u8]) -> Told {
    let mut space = [0u8; SPACE];
    let Some(f) = spelt(text, &mut space) else {
        return Ok(false);
    };
    let a = between(&space, 0, f.first);
    let b = between(&space, f.first, f.second);
    let c = between(&space, f.second, f.third);
    let d = between(&space, f.third, f.fourth);
    let w = basex_request::write_request(out, kind, a, b, c, d);
    show_written(to, w, out)?;
    Ok(true)
}

// An item written: its id, its URI and its text.
fn entry<W: Write>(to: &mut W, kind: u8, text: &[u8], out: &mut [u8]) -> Told {
    let mut space = [0u8; SPACE];
    let Some(id) = decimal_byte(front(text, b' ')) else {
        return Ok(false);
    };
    let Some(f) = spelt(skip(text, 1), &mut space) else {
        return Ok(false);
    };
    let uri = between(&space, 0, f.first);
    let value = between(&space, f.first, f.second);
    let w = basex_response::write_item(out, 0, kind, id, uri, value);
    show_written(to, w, out)?;
    Ok(true)
}

// A response written but for its items: the status, the strings ahead of it and the error.
fn answer<W: Write>(to: &mut W, kind: u8, text: &[u8], out: &mut [u8]) -> Told {
    let mut space = [0u8; SPACE];
    let Some(status) = byte(front(text, b' ')) else {
        return Ok(false);
    };
    let Some(f) = spelt(skip(text, 1), &mut space) else {
        return Ok(false);
    };
    let a = between(&space, 0, f.first);
    let b = between(&space, f.first, f.second);
    let c = between(&space, f.second, f.third);
    let w = basex_response::write_end(out, 0, kind, a, b, status, c);
    show_written(to, w, out)?;
    Ok(true)
}

// A line with a kind, behind which stands its text.
fn of_kind<W: Write>(to: &mut W, word: usize, text: &[u8], out: &mut [u8]) -> Told {
    let Some(kind) = byte(front(text, b' ')) else {
        return Ok(false);
    };
    let rest = skip(text, 1);
    match word {
        3 => plain(to, 3, kind, rest, out),
        4 => ask(to, kind, rest, out),
        5 => entry(to, kind, rest, out),
        _ => answer(to, kind, rest, out),
    }
}

// Whether the line is one of these; its answer is printed. Behind its first word it has the room.
pub fn line<W: Write>(to: &mut W, word: &[u8], text: &[u8]) -> Told {
    let mut lent = [BLANK; SPACE];
    let Some(room) = decimal(front(text, b' ')) else {
        return Ok(false);
    };
    if SPACE < room as usize {
        return Ok(false);
    }
    let out = &mut lent[0..room as usize];
    match position(b"spell spelt request response ask entry answer", word) {
        7 => Ok(false),
        k if k < 3 => plain(to, k, 0xFF, skip(text, 1), out),
        k => of_kind(to, k, skip(text, 1), out),
    }
}
