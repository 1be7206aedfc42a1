// A response: its status, its strings, its items as ID:TEXT or ID:URI:TEXT, and its error as !TEXT,
// ahead of the status in the bytes or behind it.
use crate::text::{Texts, refused};
use basex::Reply;
use basex_response::{ItemAt, Replied};
use std::io::{self, Write};
use text_lines::print::hex;

// What a response to the kind is made of; reading has refused other kinds before this is asked.
fn reply_of(kind: u8) -> Reply {
    match basex::find(kind) {
        Some((_, reply)) => reply,
        None => Reply::Command,
    }
}

// So many items from the front of the bytes.
fn items<W: Write>(
    to: &mut W,
    full: bool,
    n: usize,
    bytes: &[u8],
    texts: &mut Texts<'_>,
) -> io::Result<()> {
    let mut at = 0;
    for _ in 0..n {
        if let Ok(
            ItemAt::Item {
                id,
                uri,
                text,
                next,
            },
        ) = basex_response::item_at(full, bytes, at)
        {
            write!(to, " {id}")?;
            if basex::item_strings(full, id) == 2 {
                texts.field(to, uri, ':')?;
            }
            texts.field(to, text, ':')?;
            at = next;
        }
    }
    Ok(())
}

// Which string ahead of the status is the error, counted from 1: "with status 01 the last string is the
// error", which stands ahead where none stands behind.
fn error_ahead(reply: Reply, status: u8) -> Option<usize> {
    if status == 1 && basex::strings_behind(reply, status) == 0 {
        Some(basex::strings_ahead(reply))
    } else {
        None
    }
}

// A string, or an error with its mark.
// A flag: an error stands among the strings, at a place that the kind tells.
fn string<W: Write>(
    to: &mut W,
    is_error: bool,
    len: usize,
    texts: &mut Texts<'_>,
) -> io::Result<()> {
    if is_error {
        to.write_all(b" ")?;
        texts.field(to, len, '!')
    } else {
        texts.field(to, len, ' ')
    }
}

fn print<W: Write>(
    to: &mut W,
    kind: u8,
    response: Replied,
    bytes: &[u8],
    texts: &mut Texts<'_>,
) -> io::Result<()> {
    let status = response.status;
    let read = response.read;
    write!(to, " 0 {read} ")?;
    hex(to, &[status])?;
    let reply = reply_of(kind);
    let ahead = basex::strings_ahead(reply);
    let which = error_ahead(reply, status);
    if 0 < ahead {
        string(to, which == Some(1), response.first, texts)?;
    }
    if 1 < ahead {
        string(to, which == Some(2), response.second, texts)?;
    }
    if basex::is_listed(reply) {
        items(to, basex::is_full(reply), response.items, bytes, texts)?;
    }
    if 0 < basex::strings_behind(reply, status) {
        string(to, true, response.error, texts)?;
    }
    Ok(())
}

// Answers how many bytes of the output the texts take.
pub fn show<W: Write>(to: &mut W, kind: u8, bytes: &[u8], out: &mut [u8]) -> io::Result<usize> {
    match basex_response::read_response(kind, bytes, out) {
        Err(r) => {
            refused(to, r)?;
            Ok(0)
        }
        Ok(response) => {
            let mut texts = Texts { left: out };
            print(to, kind, response, bytes, &mut texts)?;
            Ok(out.len().saturating_sub(texts.left.len()))
        }
    }
}
