// Joining: the caller keeps the assembly in seven numbers and lends them. They are what is open (0
// nothing, 1 a statement, 2 an item up to 3.0, 3 one of 4.0), whether a part was taken, the bytes
// held, whether a part found no room, format, class and type. The buffer stands beside them.
ghost use Rattle.std.specs.Prelude.{None, Some, ◌≡◌, ◌==◌, ◌≤◌, ltb, length};
ghost use Rattle.answer_c.specs.Codes.{counted_code};
ghost use Rattle.wire.specs.Bytes.{if};
ghost use Rattle.wire.specs.Call.{Gives};
ghost use Rattle.parts_c.specs.Joining.{open_of, open_number, assembly_put, meant_by, open_code, open_after, told_put, told_after};
ghost use Rattle.parts_c.specs.Joining.{outcome, JoinLeaves};

use answer_c::{counted_code, refusal_code};
use parts_join::{Answer, Assembly, Label, Open};
use sedna_c::sides::sender_of;
use sedna_read::Reading;
use wire::Refusal;

// Numbers, not enums: C lends them, and any number is judged.
fn open_in(what: u64) -> Option<Open>
    ensures { result ≡ if (ltb 3 what) None (Some (open_of what)) }
{
    match what {
        0 => Some(Open::Nothing),
        1 => Some(Open::Statement),
        2 => Some(Open::Item),
        3 => Some(Open::TypedItem),
        _ => None,
    }
}

// The number that C reads for it.
fn open_number(what: Open) -> u64
    ensures { result ≡ open_number what }
{
    match what {
        Open::Nothing => 0,
        Open::Statement => 1,
        Open::Item => 2,
        Open::TypedItem => 3,
    }
}

fn flag_in(n: u64) -> Option<bool>
    ensures { result ≡ if (ltb 1 n) None (Some (n == 1)) }
{
    match n {
        0 => Some(false),
        1 => Some(true),
        _ => None,
    }
}

fn byte_in(n: u64) -> Option<u8>
    ensures { result ≡ if (ltb 255 n) None (Some n) }
{
    u8::try_from(n).ok()
}

#[tactic(auto, unfolding(crate::specs::Joining::meant_by))]
fn meant_by(assembly: &[u64]) -> Option<Assembly>
    requires { 7 ≤ length assembly.now }
    ensures { result ≡ meant_by assembly.now }
{
    Some(Assembly {
        what: open_in(assembly[0])?,
        begun: flag_in(assembly[1])?,
        held: assembly[2] as usize,
        overflowed: flag_in(assembly[3])?,
        label: Label {
            format: byte_in(assembly[4])?,
            class: byte_in(assembly[5])?,
            kind: byte_in(assembly[6])?,
        },
    })
}

fn put(assembly: &mut [u64], a: Assembly)
    requires { 7 ≤ length assembly.old }
    ensures { assembly.new ≡ assembly_put a assembly.old }
{
    assembly[0] = open_number(a.what);
    assembly[1] = u64::from(a.begun);
    assembly[2] = a.held as u64;
    assembly[3] = u64::from(a.overflowed);
    assembly[4] = u64::from(a.label.format);
    assembly[5] = u64::from(a.label.class);
    assembly[6] = u64::from(a.label.kind);
}

// Puts a fresh opening into the first seven numbers: 1 for a statement, 2 for an item up to 3.0, 3
// for one of 4.0. What they held is dropped.
pub fn kdr_open(assembly: &mut [u64], what: u64) -> u64
    ensures { Gives (open_code what assembly.old) (open_after what assembly.old) result assembly.new }
{
    if assembly.len() < 7 {
        return refusal_code(Refusal::NoRoom);
    }
    match open_in(what) {
        None | Some(Open::Nothing) => refusal_code(Refusal::ValueNotAllowed),
        Some(open) => {
            put(assembly, Assembly::open(open));
            0
        }
    }
}

// Four numbers, not a struct: C lends them.
fn tell(told: &mut [u64], what: u64, len: usize, a: u8, b: u8)
    requires { 4 ≤ length told.old }
    ensures { told.new ≡ told_put what len a b told.old }
{
    told[0] = what;
    told[1] = len as u64;
    told[2] = u64::from(a);
    told[3] = u64::from(b);
}

fn tell_answer(told: &mut [u64], answer: Result<Answer, Refusal>)
    requires { 4 ≤ length told.old }
    ensures { told.new ≡ told_after answer told.old }
{
    match answer {
        Ok(Answer::Part) => tell(told, 0, 0, 0, 0),
        Ok(Answer::Statement { format, len }) => tell(told, 1, len, format, 0),
        Ok(Answer::Item { len }) => tell(told, 2, len, 0, 0),
        Ok(Answer::TypedItem { class, kind, len }) => tell(told, 3, len, class, kind),
        Err(_) => {}
    }
}

// What `kdr_join` does, with its refusals as an `Err`.
#[tactic(auto, unfolding(crate::specs::Joining::outcome, sedna_c::specs::Codes::side_reading))]
fn join_lent(
    assembly: &mut [u64],
    buffer: &mut [u8],
    side: u8,
    bytes: &[u8],
    told: &mut [u64],
) -> Result<usize, Refusal>
    ensures { JoinLeaves (outcome assembly.old buffer.old side bytes.now told.old)
        (counted_code result) assembly.new buffer.new told.new }
{
    if assembly.len() < 7 || told.len() < 4 {
        return Err(Refusal::NoRoom);
    }
    let a = meant_by(assembly).ok_or(Refusal::ValueNotAllowed)?;
    let sender = sender_of(side).ok_or(Refusal::ValueNotAllowed)?;
    let Reading {
        instruction,
        places,
        count,
    } = sedna_read::read(sender, bytes)?;
    let joined = parts_join::join(a, buffer, instruction, places, bytes);
    put(assembly, joined.assembly);
    tell_answer(told, joined.answer);
    joined.answer?;
    Ok(count)
}

// Reads the message at the front of bytes, which side sent (1 is the client, 2 the server), and
// joins it. What is told, in four numbers, is 0 for a part, or 1, 2 or 3 for a finished statement,
// item or item of 4.0, with its length, its format or class, and its type.
pub fn kdr_join(
    assembly: &mut [u64],
    buffer: &mut [u8],
    side: u8,
    bytes: &[u8],
    told: &mut [u64],
) -> u64
    ensures { JoinLeaves (outcome assembly.old buffer.old side bytes.now told.old)
        result assembly.new buffer.new told.new }
{
    counted_code(join_lent(assembly, buffer, side, bytes, told))
}
