// A message joined, and what it hands over printed.
ghost use Rattle.std.specs.Prelude.{◌≡◌, length};
ghost use Rattle.sedna.specs.Message.{message};
ghost use Rattle.sedna_read.specs.Meaning.{body_in};
ghost use Rattle.parts_join.specs.Joining.{joined};

use crate::text;
use parts_join::Assembly;
use sedna_read::Places;
use std::io::Write;

// Prints the answer and whether what was handed over is the text, and goes on with the record, printed or not.
pub fn join_said<W: Write>(
    to: &mut W,
    a: Assembly,
    buffer: &mut [u8],
    instruction: u32,
    places: Places,
    bytes: &[u8],
    text: &[u8],
) -> Assembly
    ensures { result ≡ (joined a (length buffer.old) (message instruction (body_in bytes.now places))).assembly }
{
    let h = parts_handing::join_handing(a, buffer, instruction, places, bytes);
    let _ = text::answer(to, h.joined.answer, h.part, text);
    h.joined.assembly
}
