// The lines that document 01's transcript program prints for the records of a transcript, over
// slices. A program only reads and prints.
#![tactic(auto)]

ghost use Rattle.std.specs.Prelude.{◌≡◌, ◌≤◌};
ghost use Rattle.records_printed.specs.inner.Line.{width_of};

use session::Session;
use wire::Refusal;

mod answers;
mod decimal;
mod line;
mod next_line;
mod whole;

pub use answers::answer;
pub use line::{put_last_line, put_line};
pub use next_line::put_next_line;
pub use whole::replay;

// What a record is answered, 0 or the refusal's number, and the session after it. A number, not an
// Option: 7 may stand for the refusal of the step, and `answered` (specs/Answer.antt) has numbers.
#[derive(Clone, Copy)]
pub struct Answered {
    pub number: u8,
    pub session: Session,
}

// No line of a record is longer: 20 digits, 10, at most 3, and 5 characters between and behind them.
pub const LONGEST_LINE: usize = 38;

// How many bytes of a line were put into lent output: a record's, with the session to go on with;
// or the last one.
#[derive(Clone, Copy)]
pub enum CountedLine {
    Record { count: usize, session: Session },
    Last(usize),
}

// How many characters the three fields of a line have that differ in length.
#[derive(Clone, Copy)]
struct Widths {
    number: usize,
    instruction: usize,
    answer: usize,
}

impl Widths {
    // A line has five more.
    fn line(self) -> usize
        requires { width_of self ≤ 38 }
        ensures { result ≡ width_of self }
    {
        self.number + self.instruction + self.answer + 5
    }
}
