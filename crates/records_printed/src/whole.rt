// A whole transcript in one slice, replayed from a fresh session: what is printed for it, put into
// lent output. The size is judged in a first run, so that a refusal leaves the output as it was.
ghost use Rattle.std.specs.Prelude.{◌≡◌, ◌+◌, ◌≤◌, length};
ghost use Rattle.wire.specs.Call.{in_room, put_at};
ghost use Rattle.records_printed.specs.Output.{Puts};
ghost use Rattle.records_printed.specs.Transcript.{printed};

use crate::CountedLine;
use crate::answers::answer;
use crate::line::{last_line, measure, put_last_line, put_line};
use records::{Next, record_at};
use session::Session;
use wire::{Refusal, in_room, part};

// So many bytes more behind the first ones, all counted.
fn with_more(room: usize, to: usize, more: usize) -> Result<usize, Refusal>
    ensures { result ≡ in_room room 0 (to + more) }
{
    Ok(to + in_room(room, to, more)?)
}

// How many bytes are printed, where the room is enough for them.
fn size_within(bytes: &[u8], room: usize) -> Result<usize, Refusal>
    ensures { result ≡ in_room room 0 (length (printed bytes.now)) }
{
    let mut session = Session::FRESH;
    let mut number: u64 = 1;
    let mut at: usize = 0;
    let mut to: usize = 0;
    // No `for`: each record tells where the next one starts.
    loop {
        match record_at(bytes, at) {
            Next::End => return with_more(room, to, last_line(false, session).len()),
            Next::Damaged => return with_more(room, to, last_line(true, session).len()),
            Next::Record { side, payload } => {
                let found = part(bytes, payload);
                let a = answer(session, side, found);
                let w = measure(number, found, a.number);
                to = with_more(room, to, w.line())?;
                number += 1;
                at = payload.start + payload.len;
                session = a.session;
            }
        }
    }
}

// The lines, where there is room for all of them.
fn put_all(bytes: &[u8], out: &mut [u8])
    requires { length (printed bytes.now) ≤ length out.old }
    ensures { out.new ≡ put_at out.old 0 (printed bytes.now) }
{
    let mut session = Session::FRESH;
    let mut number: u64 = 1;
    let mut at: usize = 0;
    let mut to: usize = 0;
    // No `for`: each record tells where the next one starts.
    loop {
        match record_at(bytes, at) {
            Next::End => {
                let _ = put_last_line(out, to, false, session);
                return;
            }
            Next::Damaged => {
                let _ = put_last_line(out, to, true, session);
                return;
            }
            Next::Record { side, payload } => {
                let found = part(bytes, payload);
                let Ok(
                    CountedLine::Record {
                        count,
                        session: after,
                    },
                ) = put_line(out, to, number, session, side, found)
                else {
                    unreachable!()
                };
                to += count;
                number += 1;
                at = payload.start + payload.len;
                session = after;
            }
        }
    }
}

// What the transcript program prints for a transcript, from the front of the output on.
pub fn replay(bytes: &[u8], out: &mut [u8]) -> Result<usize, Refusal>
    ensures { Puts out.old 0 (printed bytes.now) result out.new }
{
    let size = size_within(bytes, out.len())?;
    put_all(bytes, out);
    Ok(size)
}
