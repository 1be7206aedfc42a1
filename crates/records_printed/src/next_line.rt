// A transcript record by record: what is printed for what was read of one, put into lent output.
ghost use Rattle.std.specs.Prelude.{◌≡◌};
ghost use Rattle.records.specs.Record.{front};
ghost use Rattle.records_printed.specs.NextLine.{next_line, goes_on};
ghost use Rattle.records_printed.specs.Output.{PutsLine, end_line};

use crate::CountedLine;
use crate::line::{put_last_line, put_line};
use records::{Next, record_at};
use session::Session;
use wire::{Refusal, part};

fn last_of(counted: Result<usize, Refusal>) -> Result<CountedLine, Refusal>
    ensures { result ≡ end_line counted }
{
    counted.map(CountedLine::Last)
}

// What is printed for the record in front of `bytes`, from the front of the output on: its line, or
// the last line where there is none or it is damaged. LONGEST_LINE bytes are always enough.
pub fn put_next_line(
    out: &mut [u8],
    number: u64,
    session: Session,
    bytes: &[u8],
) -> Result<CountedLine, Refusal>
    ensures { PutsLine (goes_on session (front bytes.now)) out.old 0
        (next_line number session (front bytes.now)) result out.new }
{
    match record_at(bytes, 0) {
        Next::End => last_of(put_last_line(out, 0, false, session)),
        Next::Damaged => last_of(put_last_line(out, 0, true, session)),
        Next::Record { side, payload } => {
            let found = part(bytes, payload);
            put_line(out, 0, number, session, side, found)
        }
    }
}
