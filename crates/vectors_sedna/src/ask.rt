// The writing lines: each has a message written into lent output.
use crate::fields::{Kind, fields_of};
use crate::written;
use std::io::{self, Write};
use text_lines::cut::{front, position, skip};
use text_lines::lent::BLANK;
use text_lines::parse::{SPACE, decimal};
use text_sedna::write::message;

fn kind_of(word: &[u8]) -> Option<Kind> {
    match position(
        b"empty text statement coded session item itemurl options",
        word,
    ) {
        0 => Some(Kind::Empty),
        1 => Some(Kind::Text),
        2 => Some(Kind::Statement),
        3 => Some(Kind::Coded),
        4 => Some(Kind::Session),
        5 => Some(Kind::Item),
        6 => Some(Kind::ItemUrl),
        7 => Some(Kind::Options),
        _ => None,
    }
}

// A writing line: behind its first word it has the room, the instruction and the fields.
#[derive(Drop)]
struct Line<'a> {
    room: usize,
    kind: Kind,
    instruction: u32,
    text: &'a [u8],
}

fn line_of<'a>(word: &[u8], rest: &'a [u8]) -> Option<Line<'a>> {
    let room = decimal(front(rest, b' '))? as usize;
    let instruction = decimal(front(skip(rest, 1), b' '))?;
    let kind = kind_of(word)?;
    let text = skip(rest, 2);
    Some(Line {
        room,
        kind,
        instruction,
        text,
    })
}

// Whether the line is a writing line; its answer is printed.
pub fn write<W: Write>(to: &mut W, word: &[u8], rest: &[u8]) -> io::Result<bool> {
    let Some(line) = line_of(word, rest) else {
        return Ok(false);
    };
    // An array: no heap, as in the library.
    let mut space = [0u8; SPACE];
    let Some(places) = fields_of(line.kind, line.text, &mut space) else {
        return Ok(false);
    };
    let mut lent = [BLANK; SPACE];
    let Some(out) = lent.get_mut(..line.room) else {
        return Ok(false);
    };
    let w = message(out, &space, line.instruction, places);
    written::show(to, w, out)?;
    Ok(true)
}
