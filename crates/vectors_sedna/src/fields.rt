// The fields of a writing line: their bytes go into lent space, and the places there tell the message.
use sedna_read::Places;
use text_lines::cut::{Parts, behind, front, skip, trimmed};
use text_lines::parse::{SPACE, bytes, decimal};
use wire::Place;

// The writing lines, by their first words.
#[derive(Clone, Copy)]
pub enum Kind {
    Empty,
    Text,
    Statement,
    Coded,
    Session,
    Item,
    ItemUrl,
    Options,
}

pub fn fields_of(kind: Kind, text: &[u8], space: &mut [u8]) -> Option<Places> {
    match kind {
        Kind::Options => options(text, space),
        _ => plain(kind, text, space),
    }
}

fn plain(kind: Kind, text: &[u8], space: &mut [u8]) -> Option<Places> {
    let n = numbers(kind);
    let hex = skip(text, n);
    let x = number(text, 0, n)?;
    let y = number(text, 1, n)?;
    if !cut_as(kind, hex) {
        return None;
    }
    let i = bytes(front(hex, b'/'), space, 0)?;
    let j = bytes(behind(hex, b'/'), space, i)?;
    // It never goes back; tested, since no contract says so.
    let second = j.checked_sub(i)?;
    Some(places(kind, x, y, i, second))
}

// How many numbers stand ahead of the byte fields.
fn numbers(kind: Kind) -> usize {
    match kind {
        Kind::Empty | Kind::Text => 0,
        Kind::Statement | Kind::Coded => 1,
        _ => 2,
    }
}

// The k-th of n numbers, 0 beyond them.
fn number(text: &[u8], k: usize, n: usize) -> Option<u32> {
    if n <= k {
        return Some(0);
    }
    decimal(front(skip(text, k), b' '))
}

// Whether there is a slash exactly where a line has two byte fields.
fn cut_as(kind: Kind, hex: &[u8]) -> bool {
    let slash = front(hex, b'/').len() < hex.len();
    match kind {
        Kind::Empty => hex.len() == 0,
        Kind::Session | Kind::ItemUrl => slash,
        _ => !slash,
    }
}

// The body of two numbers at most, and of i bytes at the start of the space and j behind them.
fn places(kind: Kind, x: u32, y: u32, i: usize, j: usize) -> Places {
    let a = Place { start: 0, len: i };
    let b = Place { start: i, len: j };
    match kind {
        Kind::Text => Places::Text(a),
        Kind::Statement => Places::Statement {
            format: byte(x),
            text: a,
        },
        Kind::Coded => Places::Coded { code: x, text: a },
        Kind::Session => Places::Session {
            major: byte(x),
            minor: byte(y),
            user: a,
            database: b,
        },
        Kind::Item => Places::Item {
            class: byte(x),
            kind: byte(y),
            url: None,
            part: a,
        },
        Kind::ItemUrl => Places::Item {
            class: byte(x),
            kind: byte(y),
            url: Some(a),
            part: b,
        },
        _ => Places::Empty,
    }
}

// A number that no byte holds counts as 255, which no field allows either.
fn byte(x: u32) -> u8 {
    u8::try_from(x).unwrap_or(255)
}

// `ID HEX / ID HEX / ..`, as the pairs of a body: options have no other places.
fn options(text: &[u8], space: &mut [u8]) -> Option<Places> {
    let mut len = 0;
    let mut count = 0usize;
    for one in Parts::of(text, b'/') {
        len = pair(trimmed(one), space, len)?;
        count = count.checked_add(1)?;
    }
    Some(Places::Options {
        pairs: Place { start: 0, len },
        count,
    })
}

// The pair that `ID HEX` spells, from n on: its value is spelt first, to know the length in front of it.
fn pair(text: &[u8], space: &mut [u8], n: usize) -> Option<usize> {
    if SPACE < n {
        return None;
    }
    let from = n + 9;
    let id = decimal(front(text, b' '))?;
    let end = bytes(behind(text, b' '), space, from)?;
    // As above; and the length is one that an int holds.
    let len = u32::try_from(end.checked_sub(from)?).ok()?;
    wire::put_int(space, n, id);
    wire::put_byte(space, n + 4, 0);
    wire::put_int(space, n + 5, len);
    Some(end)
}
