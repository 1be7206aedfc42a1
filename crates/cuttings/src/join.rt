// Messages joined as they are told, whatever a reader would say of them.
use crate::hand::join_said;
use crate::text::{MOST, number, value};
use parts_join::{Assembly, Open};
use sedna::Shape;
use sedna_read::Places;
use std::io::{self, Write};
use text_lines::cut::{Parts, behind, front};
use text_lines::parse::decimal;
use wire::Place;

// What a word opens.
pub fn opened<W: Write>(to: &mut W, word: &[u8]) -> io::Result<Assembly> {
    let what = if word == b"statement".as_slice() {
        Open::Statement
    } else if word == b"item".as_slice() {
        Open::Item
    } else if word == b"typed".as_slice() {
        Open::TypedItem
    } else {
        if word != b"none".as_slice() {
            to.write_all(b" ?")?;
        }
        Open::Nothing
    };
    Ok(Assembly::open(what))
}

// The body that an instruction has, with its text at a place. Options are none.
fn places(instruction: u32, text: Place, values: &[u8]) -> Places {
    let Some((_, shape)) = sedna::find(instruction) else {
        return Places::Empty;
    };
    match shape {
        Shape::Empty | Shape::Options => Places::Empty,
        Shape::Text => Places::Text(text),
        Shape::Coded => Places::Coded { code: 0, text },
        Shape::Statement => {
            let format = value(front(values, b':'), 0);
            Places::Statement { format, text }
        }
        Shape::Session => Places::Session {
            major: value(front(values, b':'), 4),
            minor: value(behind(values, b':'), 0),
            user: text,
            database: text,
        },
        Shape::Item => Places::Item {
            class: value(front(values, b':'), 1),
            kind: value(behind(values, b':'), 24),
            url: None,
            part: text,
        },
    }
}

// Joins the message that a word tells, or opens anew. Its text is the part of the pattern that goes
// on from what is held, so that the whole is the pattern's front.
fn take<W: Write>(
    to: &mut W,
    a: Assembly,
    buffer: &mut [u8],
    pattern: &[u8],
    word: &[u8],
) -> io::Result<Assembly> {
    to.write_all(b"; ")?;
    to.write_all(word)?;
    let instruction = match decimal(front(word, b':')) {
        Some(n) if n as usize <= MOST => n,
        _ => return opened(to, word),
    };
    let rest = behind(word, b':');
    let start = a.held;
    let len = match front(rest, b':') {
        [] => 0,
        digits => number(digits).unwrap_or(MOST + 1),
    };
    let places = places(instruction, Place { start, len }, behind(rest, b':'));
    Ok(join_said(to, a, buffer, instruction, places, pattern, pattern))
}

// The words are OPENING ROOM M M ..
pub fn answered<W: Write>(to: &mut W, pattern: &[u8], words: &[u8]) -> io::Result<()> {
    // An array: no heap, as in the library.
    let mut buffer = [0u8; MOST];
    let opening = front(words, b' ');
    let rest = behind(words, b' ');
    to.write_all(b"join ")?;
    to.write_all(opening)?;
    let mut a = opened(to, opening)?;
    to.write_all(b" ")?;
    to.write_all(front(rest, b' '))?;
    let Some(room) = number(front(rest, b' ')) else {
        return to.write_all(b" ?");
    };
    let Some(lent) = buffer.get_mut(..room) else {
        return to.write_all(b" ?");
    };
    for word in Parts::of(behind(rest, b' '), b' ') {
        a = take(to, a, lent, pattern, word)?;
    }
    Ok(())
}
