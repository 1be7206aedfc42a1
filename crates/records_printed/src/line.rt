// A record's line, field by field, and the last line, put into lent output.
ghost use Rattle.std.specs.Prelude.{[], ◌∷◌, ◌≡◌, ◌+◌, ◌≤◌, length};
ghost use Rattle.wire.specs.Call.{put_at};
ghost use Rattle.records.specs.Record.{record_of};
ghost use Rattle.records_printed.specs.Answer.{answered};
ghost use Rattle.records_printed.specs.Line.{letter as letter_of, instruction, space, line, line_in};
ghost use Rattle.records_printed.specs.Output.{Puts, PutsLine, record_line};
ghost use Rattle.records_printed.specs.Transcript.{last_line};
ghost use Rattle.records_printed.specs.inner.Line.{widths_of, width_of, Measures, Counts, Fits};

use crate::answers::answer;
use crate::decimal::{count_digits, put_digits};
use crate::{CountedLine, Widths};
use sedna::Side;
use session::Session;
use wire::{Refusal, in_room};

fn letter(side: Side) -> u8
    ensures { result ≡ letter_of side }
{
    match side {
        Side::Client => b'C',
        Side::Server => b'S',
    }
}

fn put_sender(out: &mut [u8], at: usize, side: Side)
    requires { at + 3 ≤ length out.old }
    ensures { out.new ≡ put_at out.old at (space ∷ letter_of side ∷ space ∷ []) }
{
    wire::put_bytes(out, at, &[b' ', letter(side), b' ']);
}

fn count_instruction(payload: &[u8]) -> usize
    ensures { Counts (instruction payload.now) 10 result }
{
    if payload.len() < 4 {
        1
    } else {
        count_digits(wire::get_int(payload, 0) as u64)
    }
}

fn put_instruction(out: &mut [u8], at: usize, payload: &[u8], count: usize)
    requires { Fits out.old at count (instruction payload.now) }
    ensures { out.new ≡ put_at out.old at (instruction payload.now) }
{
    if payload.len() < 4 {
        wire::put_byte(out, at, b'-');
    } else {
        put_digits(out, at, wire::get_int(payload, 0) as u64, count);
    }
}

// The fields of a line, measured.
pub(crate) fn measure(number: u64, payload: &[u8], answer: u8) -> Widths
    ensures { Measures number payload.now answer result }
{
    Widths {
        number: count_digits(number),
        instruction: count_instruction(payload),
        answer: count_digits(answer as u64),
    }
}

// The line of a record that was answered, where there is room for it.
fn put_fields(
    out: &mut [u8],
    at: usize,
    number: u64,
    side: Side,
    payload: &[u8],
    answer: u8,
    w: Widths,
)
    requires { (w ≡ widths_of number payload.now answer) × (at + width_of w ≤ length out.old) }
    ensures { out.new ≡ put_at out.old at (line number (record_of side payload.now) answer) }
{
    let sender = at + w.number;
    let instruction = sender + 3;
    let gap = instruction + w.instruction;
    let refusal = gap + 1;
    let end = refusal + w.answer;
    put_digits(out, at, number, w.number);
    put_sender(out, sender, side);
    put_instruction(out, instruction, payload, w.instruction);
    wire::put_byte(out, gap, b' ');
    put_digits(out, refusal, answer as u64, w.answer);
    wire::put_byte(out, end, b'\n');
}

// The line of a record, from `at` on: its number, who sent it, its instruction and what it is
// answered. All of the line or nothing; LONGEST_LINE bytes are always enough.
pub fn put_line(
    out: &mut [u8],
    at: usize,
    number: u64,
    session: Session,
    side: Side,
    payload: &[u8],
) -> Result<CountedLine, Refusal>
    ensures { PutsLine (record_line (answered session (record_of side payload.now)).session) out.old at
        (line_in number session (record_of side payload.now)) result out.new }
{
    let a = answer(session, side, payload);
    let w = measure(number, payload, a.number);
    let count = in_room(out.len(), at, w.line())?;
    put_fields(out, at, number, side, payload, a.number, w);
    Ok(CountedLine::Record {
        count,
        session: a.session,
    })
}

// How the session stands at the input's end, or that the input was damaged.
// A flag: the two ends differ in a word.
pub(crate) fn last_line(damaged: bool, session: Session) -> &'static [u8]
    ensures { result.now ≡ last_line damaged session }
{
    if damaged {
        b"damaged\n"
    } else if session::closed(session) {
        b"closed\n"
    } else {
        b"open\n"
    }
}

// The last line, from `at` on.
pub fn put_last_line(
    out: &mut [u8],
    at: usize,
    damaged: bool,
    session: Session,
) -> Result<usize, Refusal>
    ensures { Puts out.old at (last_line damaged session) result out.new }
{
    let text = last_line(damaged, session);
    let counted = in_room(out.len(), at, text.len());
    wire::put_bytes(out, at, text);
    counted
}
