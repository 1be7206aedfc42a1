// Prints what reading a BaseX request or response answers, on the rest of a line: 0 or the refusal,
// and behind a 0 the bytes read and every decoded field in hexadecimal. No part of the library: what
// programs share.
#![tactic(auto)]

use std::io::{self, Write};

pub mod request;
pub mod response;
pub mod text;

// A response to a request that starts with the byte, or, for FF, which starts none, a request. Answers
// how many bytes of the output the texts take.
pub fn show<W: Write>(to: &mut W, kind: u8, bytes: &[u8], out: &mut [u8]) -> io::Result<usize> {
    if kind == 0xFF {
        request::show(to, bytes, out)
    } else {
        response::show(to, kind, bytes, out)
    }
}
