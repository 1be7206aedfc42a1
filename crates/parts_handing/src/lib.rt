// Joining that returns what is finished as a part of the caller's buffer, beside the record and the
// answer.
#![tactic(auto)]

ghost use Rattle.sedna.specs.Message.{message};
ghost use Rattle.sedna_read.specs.Meaning.{body_in};
ghost use Rattle.parts_join.specs.Joining.{Hands};
ghost use Rattle.parts_handing.specs.Handing.{JoinHands};

use parts_join::{Answer, Assembly, Joined};
use sedna_read::Places;
use wire::Refusal;

// What joining a message returns, and what it hands over: the front part of the buffer, with no copy.
#[derive(Clone, Copy)]
pub struct Handing<'a> {
    pub joined: Joined,
    pub part: &'a [u8],
}

// Of a buffer that was lent to be written, and is given up for the part.
fn handed_of<'a>(buffer: &'a mut [u8], answer: Result<Answer, Refusal>) -> &'a [u8]
    ensures { Hands answer buffer.old buffer.entry.ref_ptr result.now result.ref_ptr }
{
    let whole = &buffer[..];
    parts_join::handed(whole, answer)
}

// Joins a message as `parts_join::join` does, and hands over.
pub fn join_handing<'a>(
    a: Assembly,
    buffer: &'a mut [u8],
    instruction: u32,
    places: Places,
    bytes: &[u8],
) -> Handing<'a>
    ensures { JoinHands a buffer.old buffer.entry.ref_ptr (message instruction (body_in bytes.now places)) result }
{
    let joined = parts_join::join(a, &mut *buffer, instruction, places, bytes);
    let part = handed_of(buffer, joined.answer);
    Handing { joined, part }
}
