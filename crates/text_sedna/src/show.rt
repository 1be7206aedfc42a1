// What reading answers: the refusal, or the message with its fields.
use crate::names::name;
use crate::write;
use sedna::Side;
use sedna_read::{Places, Reading};
use std::io::{self, Write};
use text_lines::names::refused;
use text_lines::parse::SPACE;
use text_lines::print::string;
use wire::{Place, first, part};

pub fn read<W: Write>(to: &mut W, side: Side, bytes: &[u8]) -> io::Result<()> {
    match sedna_read::read(side, bytes) {
        Err(r) => refused(to, r),
        Ok(reading) => message(to, bytes, reading),
    }
}

fn message<W: Write>(to: &mut W, bytes: &[u8], reading: Reading) -> io::Result<()> {
    let instruction = reading.instruction;
    let count = reading.count;
    let name = name(instruction);
    write!(to, "{instruction} {name}, {count} read: ")?;
    fields(to, bytes, reading.places)?;
    to.write_all(if same_again(bytes, reading) {
        b" ; written back: same bytes"
    } else {
        b" ; written back: DIFFERENT"
    })
}

// Whether the writer gives the bytes again, in as many as were read.
fn same_again(bytes: &[u8], reading: Reading) -> bool {
    // An array: no heap, as in the library.
    let mut space = [0u8; SPACE];
    let count = reading.count;
    if SPACE < count {
        return false;
    }
    let out = &mut space[0..count];
    match write::message(out, bytes, reading.instruction, reading.places) {
        Ok(n) => n == count && *out == *first(bytes, n),
        Err(_) => false,
    }
}

fn text<W: Write>(to: &mut W, label: &str, bytes: &[u8], place: Place) -> io::Result<()> {
    write!(to, "{label}")?;
    string(to, part(bytes, place))
}

fn fields<W: Write>(to: &mut W, bytes: &[u8], places: Places) -> io::Result<()> {
    match places {
        Places::Empty => to.write_all(b"empty body"),
        Places::Session {
            major,
            minor,
            user,
            database,
        } => {
            write!(to, "version {major}.{minor}")?;
            text(to, ", user ", bytes, user)?;
            text(to, ", database ", bytes, database)
        }
        Places::Text(place) => text(to, "string ", bytes, place),
        Places::Statement {
            format,
            text: place,
        } => {
            write!(to, "format {format}")?;
            text(to, ", text ", bytes, place)
        }
        Places::Coded { code, text: place } => {
            write!(to, "code {code}")?;
            text(to, ", string ", bytes, place)
        }
        Places::Options { pairs, count } => options(to, bytes, pairs, count),
        Places::Item {
            class,
            kind,
            url,
            part,
        } => {
            write!(to, "class {class}, type {kind}")?;
            address(to, bytes, url)?;
            text(to, ", part ", bytes, part)
        }
    }
}

fn address<W: Write>(to: &mut W, bytes: &[u8], url: Option<Place>) -> io::Result<()> {
    match url {
        Some(place) => text(to, ", URL ", bytes, place),
        None => to.write_all(b", no URL"),
    }
}

fn options<W: Write>(to: &mut W, bytes: &[u8], pairs: Place, count: usize) -> io::Result<()> {
    write!(to, "options {count}")?;
    for k in 0..count {
        match sedna_read::option_at(bytes, pairs, k) {
            Some(option) => {
                let id = option.id;
                write!(to, ", id {id} ")?;
                string(to, part(bytes, option.value))?;
            }
            None => to.write_all(b", MISSING")?,
        }
    }
    Ok(())
}
