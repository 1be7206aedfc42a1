// Document 01's transcript program: reads records from standard input, one at a time, and prints a
// line for each, then how the input ended. What is printed is the library's to say; here it is only
// read and printed.
#![tactic(auto)]

ghost use Rattle.std.specs.Prelude.{◌≤◌, length};
ghost use Rattle.records.specs.Record.{front};
ghost use Rattle.transcript.specs.inner.Program.{Within, OfRecord, GoesOn};

use records::Head;
use records_printed::{CountedLine, LONGEST_LINE};
use session::Session;
use std::io::{self, Read, Write};
use text_lines::input::fill;

// Behind a line: the session to go on with; or it was the last one; or it could not be written. Three
// ways, not an Option: `GoesOn` tells the last line from one that could not be written.
#[derive(Clone, Copy)]
enum Progress {
    On(Session),
    Ended,
    Unwritten,
}

// How many bytes were read, 0 at the input's end; nothing where the first read failed. That one tells a
// failure from the input's end. Where a later one fails, fewer bytes came than were asked for, as where
// the input ends: the record is cut.
fn read_head<R: Read>(from: &mut R, head: &mut [u8]) -> Option<usize>
    ensures { Within (length head.old) result }
{
    let got = from.read(head).ok()?;
    if got == 0 || got == head.len() {
        return Some(got);
    }
    Some(got + fill(from, &mut head[got..]))
}

// Reads a record into the buffer, which has room for any: its head, then the payload that the head
// tells.
fn read_record<R: Read>(from: &mut R, buffer: &mut [u8]) -> Option<usize>
    requires { 10254 ≤ length buffer.old }
    ensures { OfRecord buffer.new result }
{
    let got = read_head(from, &mut buffer[..6])?;
    match records::judge_head(&buffer[..got]) {
        None => Some(got),
        Some(Head { len, .. }) => {
            let end = 6 + len;
            Some(6 + fill(from, &mut buffer[6..end]))
        }
    }
}

// Prints the front of a text, and answers whether all of it was written.
fn say<W: Write>(to: &mut W, text: &[u8], count: usize) -> bool {
    to.write_all(wire::first(text, count)).is_ok()
}

// Prints what there is to print for what was read of a record. Where a line cannot be written,
// nothing more is printed: those behind it would hide that it is missing.
fn say_next_line<W: Write>(to: &mut W, number: u64, session: Session, bytes: &[u8]) -> Progress
    ensures { GoesOn session result (front bytes.now) }
{
    // An array: no heap, as in the library.
    let mut line = [0u8; LONGEST_LINE];
    match records_printed::put_next_line(&mut line, number, session, bytes) {
        Ok(CountedLine::Record { count, session }) => {
            if say(to, &line, count) {
                Progress::On(session)
            } else {
                Progress::Unwritten
            }
        }
        Ok(CountedLine::Last(count)) => {
            say(to, &line, count);
            Progress::Ended
        }
        Err(_) => unreachable!(),
    }
}

// The input could not be read to its end: what is left of it counts as a cut record.
fn say_damaged<W: Write>(to: &mut W, session: Session) {
    let mut line = [0u8; LONGEST_LINE];
    if let Ok(count) = records_printed::put_last_line(&mut line, 0, true, session) {
        say(to, &line, count);
    }
}

// A proved loop has to end: this one ends without a last line behind 2^64 - 2 records, which no
// input has.
fn answer<R: Read, W: Write>(from: &mut R, to: &mut W) {
    let mut buffer = [0u8; records::LONGEST_RECORD];
    let mut session = Session::FRESH;
    for number in 1..u64::MAX {
        let Some(got) = read_record(from, &mut buffer) else {
            return say_damaged(to, session);
        };
        let Progress::On(after) = say_next_line(to, number, session, &buffer[..got]) else {
            return;
        };
        session = after;
    }
}

fn main(rt: HostRuntime) {
    answer(&mut rt.stdin(), &mut io::writer(&rt));
}
