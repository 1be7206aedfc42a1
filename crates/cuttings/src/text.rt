// Numbers that words spell, and printing what is answered.
use parts_join::Answer;
use std::io::{self, Write};
use wire::{Refusal, first};

// The greatest length and room, and the greatest number of a line.
pub const MOST: usize = 32768;

pub fn refusal<W: Write>(to: &mut W, r: Refusal) -> io::Result<()> {
    let number = r.number();
    write!(to, " !{number}")
}

// Whether the part that was handed over is the first so many bytes of the text, and how many.
fn whole<W: Write>(to: &mut W, len: usize, part: &[u8], text: &[u8]) -> io::Result<()> {
    let same = if *part == *first(text, len) {
        "same"
    } else {
        "other"
    };
    write!(to, " {same} ={len}")
}

// What a join answers, with the part that it hands over.
pub fn answer<W: Write>(
    to: &mut W,
    answer: Result<Answer, Refusal>,
    part: &[u8],
    text: &[u8],
) -> io::Result<()> {
    match answer {
        Ok(Answer::Part) => to.write_all(b" ok"),
        Ok(Answer::Item { len }) => whole(to, len, part, text),
        Ok(Answer::Statement { format, len }) => {
            whole(to, len, part, text)?;
            write!(to, ",{format}")
        }
        Ok(Answer::TypedItem { class, kind, len }) => {
            whole(to, len, part, text)?;
            write!(to, ",{class},{kind}")
        }
        Err(r) => refusal(to, r),
    }
}

// The number that digits spell, up to 32,768.
pub fn number(word: &[u8]) -> Option<usize> {
    let n = text_lines::parse::decimal(word)? as usize;
    if n <= MOST { Some(n) } else { None }
}

// A byte; 255 for more than a byte, or what is no number.
pub fn value(word: &[u8], missing: u8) -> u8 {
    if word.is_empty() {
        return missing;
    }
    text_lines::parse::decimal_byte(word).unwrap_or(255)
}

// Each byte tells its place from those one part before it and behind it, and none is 0.
pub fn fill(text: &mut [u8]) {
    for i in 0..text.len() {
        text[i] = (i % 251 + 1) as u8;
    }
}
