// The words of a line, replayed from a fresh session.
use crate::message::offer;
use crate::text::instruction;
use sedna::names;
use session::Session;
use std::io::{self, Write};
use text_lines::cut::Parts;

// The six messages of a good start.
const START: [u32; 6] = [
    names::START_UP,
    names::SEND_SESSION_PARAMETERS,
    names::SESSION_PARAMETERS,
    names::SEND_AUTH_PARAMETERS,
    names::AUTHENTICATION_PARAMETERS,
    names::AUTHENTICATION_OK,
];

// Offers one after another.
fn offer_all<W: Write>(
    to: &mut W,
    session: Session,
    version: u8,
    instructions: &[u32],
) -> io::Result<Session> {
    let mut session = session;
    for instruction in instructions {
        session = offer(to, session, version, *instruction)?;
    }
    Ok(session)
}

// Offers what a word stands for.
fn take<W: Write>(to: &mut W, session: Session, version: u8, word: &[u8]) -> io::Result<Session> {
    if word == b"start".as_slice() {
        return offer_all(to, session, version, &START);
    }
    if word == b"in".as_slice() {
        let started = offer_all(to, session, version, &START)?;
        return offer_all(to, started, version, &[names::BEGIN, names::BEGIN_OK]);
    }
    match instruction(word) {
        Some(instruction) => offer(to, session, version, instruction),
        None => Ok(session),
    }
}

fn known(word: &[u8]) -> bool {
    if word == b"start".as_slice() || word == b"in".as_slice() {
        return true;
    }
    match instruction(word) {
        Some(instruction) => sedna::find(instruction).is_some(),
        None => false,
    }
}

// Whether every word is known.
pub fn readable(words: &[u8]) -> bool {
    Parts::of(words, b' ').all(known)
}

// Offers all that the words stand for, and prints it with how the session ends.
pub fn conversation<W: Write>(to: &mut W, version: u8, words: &[u8]) -> io::Result<()> {
    let mut session = Session::FRESH;
    for word in Parts::of(words, b' ') {
        session = take(to, session, version, word)?;
    }
    to.write_all(if session::closed(session) {
        b" closed"
    } else {
        b" open"
    })
}
