// Replays conversations from standard input through the session's step, and prints a line for each:
//     VERSION WORD WORD .. # comment
// VERSION is 1 to 4, and SessionParameters names it. A word is an instruction's number, `start` for
// the six messages of a good start, or `in` for these and a transaction begun. Each message is well
// formed and comes from its own side. Behind an instruction stands `!N` where the step refused it
// with N; the session then goes on as it was. Each message goes to both forms of the step, by value and
// over a lent record; ` ?forms` stands behind one where they differ. An empty line and one that starts
// with # are printed as they are, any other line with `?`. Behind 4,096 bytes a line counts as a new
// one.
#![tactic(auto)]

mod message;
mod replay;
mod text;

use std::io::{self, Write};
use text_lines::answers::{Answers, each_line};
use text_lines::cut::{behind, front};
use text_lines::input::asks;
use text_lines::output::Output;

// The major version that a word names.
fn version_of(word: &[u8]) -> Option<u8> {
    match word {
        [b @ b'1'..=b'4'] => Some(*b - b'0'),
        _ => None,
    }
}

fn answered<W: Write>(to: &mut W, line: &[u8]) -> io::Result<()> {
    let all = front(line, b'#');
    let words = behind(all, b' ');
    match version_of(front(all, b' ')) {
        Some(version) if replay::readable(words) => {
            write!(to, "{version}:")?;
            replay::conversation(to, version, words)?;
            if all.len() < line.len() {
                to.write_all(b" #")?;
                to.write_all(behind(line, b'#'))?;
            }
            Ok(())
        }
        _ => {
            to.write_all(line)?;
            to.write_all(b" ?")
        }
    }
}

#[derive(Drop)]
struct Conversations;

impl Answers for Conversations {
    fn answer<W: Write>(&mut self, to: &mut W, line: &[u8]) -> io::Result<()> {
        if asks(line) {
            answered(to, line)?;
        } else {
            to.write_all(line)?;
        }
        to.write_all(b"\n")
    }
}

fn main(rt: HostRuntime) -> io::Result<()> {
    each_line(
        &mut rt.reader(),
        &mut Output {
            to: io::writer(&rt),
        },
        &mut Conversations,
    )
}
