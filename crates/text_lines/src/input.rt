// Reading input, line by line.
ghost use Rattle.std.specs.Prelude.{◌≤◌, length};

use std::io::{self, Read};

// Reads one line with its end, byte by byte so that nothing behind it is taken from the input. Answers
// how many bytes; 0 at the end of the input.
pub fn line<R: Read>(from: &mut R, buffer: &mut [u8]) -> usize {
    for n in 0..buffer.len() {
        let end = n + 1;
        if from.read_exact(&mut buffer[n..end]).is_err() {
            return n;
        }
        if buffer[n] == b'\n' {
            return end;
        }
    }
    buffer.len()
}

// Whether a line asks for something: an empty one and a comment do not.
pub fn asks(line: &[u8]) -> bool {
    line.len() != 0 && line[0] != b'#'
}

// Reads until the buffer is full, the input ends or a read fails; answers how many bytes.
pub fn fill<R: Read>(from: &mut R, buffer: &mut [u8]) -> usize
    ensures { result ≤ length buffer.old }
{
    let mut n = 0;
    for _ in 0..buffer.len() {
        // A read into no room would be one call more.
        if n == buffer.len() {
            break;
        }
        match from.read(&mut buffer[n..]) {
            Ok(0) | Err(_) => break,
            Ok(got) => n += got,
        }
    }
    n
}
