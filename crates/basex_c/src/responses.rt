// Responses.
ghost use Rattle.std.specs.Prelude.{◌≡◌, length};
ghost use Rattle.basex.specs.Kinds.{find_of};
ghost use Rattle.basex.specs.Response.{item_bytes};
ghost use Rattle.basex_response.specs.Reading.{reading, text_bytes};
ghost use Rattle.basex_response.specs.Writing.{item_written, item_of, full_of, end_written, end_bytes};
ghost use Rattle.basex_c.specs.Codes.{lent, Tells, Reads};
ghost use Rattle.answer_c.specs.Codes.{WritesByCode};
ghost use Rattle.basex_c.specs.Told.{response_told, bytes_read, response_read, item_told, item_in, item_read};

use crate::numbers;
use crate::strings::{span, usable};
use answer_c::{counted_code, refusal_code};
use basex_response::{ItemAt, Replied};
use wire::Refusal;

// Six numbers to the front of the lent ones.
fn tell(told: &mut [u64], answer: Result<Replied, Refusal>) -> u64
    ensures { Tells (lent (length told.old) (response_told answer)) told.old result told.new }
{
    match answer {
        Err(r) => refusal_code(r),
        Ok(m) => numbers::tell(
            told,
            m.read as u64,
            &[
                m.first as u64,
                m.second as u64,
                m.items as u64,
                m.listed as u64,
                m.status as u64,
                m.error as u64,
            ],
        ),
    }
}

// The response to a request that starts with the byte `kind`, its texts one behind the other in the
// output; told are how long the first two are, how many items there are and how long all their
// texts are, the status, and how long the error is.
pub fn kdr_basex_read_response(kind: u8, bytes: &[u8], out: &mut [u8], told: &mut [u64]) -> u64
    ensures { Reads (response_read kind bytes.now (length out.old) (length told.old))
        out.old 0 (bytes_read text_bytes (reading kind bytes.now)) told.old
        result out.new told.new }
{
    let room = usable(out.len(), 6, told.len());
    tell(
        told,
        basex_response::read_response(kind, bytes, &mut out[..room]),
    )
}

// Three numbers to the front of the lent ones; 0 and none at the end of the items.
fn tell_item(told: &mut [u64], at: usize, answer: Result<ItemAt, Refusal>) -> u64
    ensures { Tells (lent (length told.old) (item_told at answer)) told.old result told.new }
{
    match answer {
        Err(r) => refusal_code(r),
        Ok(ItemAt::End { next: _ }) => 0,
        Ok(
            ItemAt::Item {
                id,
                uri,
                text,
                next,
            },
        ) => numbers::tell(told, span(at, next), &[id as u64, uri as u64, text as u64]),
    }
}

// What stands at `at` in the items of a response to a request that starts with the byte `kind`: no
// byte there is judged ahead of the kind, as in reading the whole response.
fn item_in(kind: u8, bytes: &[u8], at: usize) -> Result<ItemAt, Refusal>
    ensures { result ≡ item_in kind bytes.now at }
{
    if bytes.len() <= at {
        return Err(Refusal::MoreBytes);
    }
    let (_, reply) = basex::find(kind).ok_or(Refusal::UnknownInstruction)?;
    if !basex::is_listed(reply) {
        return Err(Refusal::ValueNotAllowed);
    }
    basex_response::item_at(basex::is_full(reply), bytes, at)
}

// The item at `at` in the bytes of a response to a request that starts with the byte `kind`; told
// are its id, and how long its URI and its text are.
pub fn kdr_basex_item(kind: u8, bytes: &[u8], at: usize, told: &mut [u64]) -> u64
    ensures { Tells (item_read kind bytes.now at (length told.old)) told.old result told.new }
{
    tell_item(told, at, item_in(kind, bytes, at))
}

// An item of a response, from `at` on.
pub fn kdr_basex_write_item(
    out: &mut [u8],
    at: usize,
    kind: u8,
    id: u8,
    uri: &[u8],
    text: &[u8],
) -> u64
    ensures { WritesByCode (item_written (length out.old) at kind id uri.now text.now)
        out.old at (item_bytes (item_of (full_of (find_of kind)) id uri.now text.now)) result out.new }
{
    counted_code(basex_response::write_item(out, at, kind, id, uri, text))
}

// All of a response but its items, behind them from `at` on.
pub fn kdr_basex_write_end(
    out: &mut [u8],
    at: usize,
    kind: u8,
    first: &[u8],
    second: &[u8],
    status: u8,
    error: &[u8],
) -> u64
    ensures { WritesByCode
        (end_written (length out.old) at kind first.now second.now status error.now)
        out.old at (end_bytes (find_of kind) first.now second.now status error.now) result out.new }
{
    counted_code(basex_response::write_end(out, at, kind, first, second, status, error))
}
