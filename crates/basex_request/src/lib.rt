// Reads and writes BaseX requests. All of a request or nothing: on a refusal the output stays as it
// was.
#![tactic(auto)]

ghost use Rattle.std.specs.Prelude.{◌≡◌, ◌-◌, ◌≤◌, length, drop};
ghost use Rattle.wire.specs.Call.{Gives, Writes};
ghost use Rattle.basex_string.specs.Answers.{output_read};
ghost use Rattle.basex.specs.Texts.{texts};
ghost use Rattle.basex_request.specs.Calls.{four};
ghost use Rattle.basex_request.specs.Reading.{reading, text_bytes, requested};
ghost use Rattle.basex_request.specs.Writing.{written, bytes_of};
ghost use Rattle.basex_request.specs.inner.Places.{strings_from, request_at};

mod coding;

use wire::Refusal;

// The kind (its first byte, 20 for COMMAND), how long each text is, and how many bytes were read; or
// why none was. The texts stand one behind the other in the output.
#[derive(Clone, Copy)]
pub struct Requested {
    pub kind: u8,
    pub first: usize,
    pub second: usize,
    pub third: usize,
    pub fourth: usize,
    pub read: usize,
}

// A request that reads well: where its n strings start, and what is told of it.
#[derive(Clone, Copy)]
struct RequestAt {
    from: usize,
    n: usize,
    told: Requested,
}

// A request of a kind whose n strings start at `from`, judged two by two.
fn strings_from(bytes: &[u8], kind: u8, from: usize, n: usize) -> Result<RequestAt, Refusal>
    requires { n ≤ 4 }
    ensures { result ≡ strings_from kind from (length bytes.now - from) (texts n (drop from bytes.now)) }
{
    let one = basex::two_at(bytes, from, n)?;
    let two = basex::two_at(bytes, one.next, n.saturating_sub(2))?;
    Ok(RequestAt {
        from,
        n,
        told: Requested {
            kind,
            first: one.first,
            second: one.second,
            third: two.first,
            fourth: two.second,
            read: two.next,
        },
    })
}

// The request at the front of the bytes, judged; nothing is stored.
fn judge(bytes: &[u8]) -> Result<RequestAt, Refusal>
    ensures { result ≡ request_at (length bytes.now) (reading bytes.now) }
{
    if bytes.is_empty() {
        return Err(Refusal::MoreBytes);
    }
    let b = bytes[0];
    let (n, reply) = basex::find(b).ok_or(Refusal::UnknownInstruction)?;
    if basex::is_command(reply) {
        strings_from(bytes, 0x20, 0, n)
    } else {
        strings_from(bytes, b, 1, n)
    }
}

// The request at the front of the bytes, its texts one behind the other in the output.
pub fn read_request(bytes: &[u8], out: &mut [u8]) -> Result<Requested, Refusal>
    ensures { Gives (requested (length bytes.now) (length out.old) (reading bytes.now))
        (output_read text_bytes out.old 0 (reading bytes.now)) result out.new }
{
    let found = judge(bytes)?;
    let told = found.told;
    if out.len() < told.first + told.second + told.third + told.fourth {
        return Err(Refusal::NoRoom);
    }
    basex::store_judged_texts(bytes, found.from, found.n, out, 0);
    Ok(told)
}

// A request of a kind into the front of the output: the texts that the kind takes; the others are
// empty.
pub fn write_request(
    out: &mut [u8],
    kind: u8,
    first: &[u8],
    second: &[u8],
    third: &[u8],
    fourth: &[u8],
) -> Result<usize, Refusal>
    ensures { Writes
        (written (length out.old) kind (four first.now second.now third.now fourth.now))
        out.old 0
        (bytes_of kind (four first.now second.now third.now fourth.now)) result out.new }
{
    let (n, reply) = basex::find(kind).ok_or(Refusal::UnknownInstruction)?;
    if !coding::takes(n, first, second, third, fourth) {
        return Err(Refusal::ValueNotAllowed);
    }
    if basex::is_command(reply) {
        coding::write_command(out, first)
    } else {
        coding::write_coded(out, kind, n, first, second, third, fourth)
    }
}
