// Requests.
ghost use Rattle.std.specs.Prelude.{length};
ghost use Rattle.basex_request.specs.Calls.{four};
ghost use Rattle.basex_request.specs.Reading.{reading, text_bytes};
ghost use Rattle.basex_request.specs.Writing.{written, bytes_of};
ghost use Rattle.basex_c.specs.Codes.{lent, Tells, Reads};
ghost use Rattle.answer_c.specs.Codes.{WritesByCode};
ghost use Rattle.basex_c.specs.Told.{request_told, bytes_read, request_read};

use crate::numbers;
use crate::strings::usable;
use answer_c::{counted_code, refusal_code};
use basex_request::Requested;
use wire::Refusal;

// Five numbers to the front of the lent ones.
fn tell(told: &mut [u64], answer: Result<Requested, Refusal>) -> u64
    ensures { Tells (lent (length told.old) (request_told answer)) told.old result told.new }
{
    match answer {
        Err(r) => refusal_code(r),
        Ok(m) => numbers::tell(
            told,
            m.read as u64,
            &[
                m.kind as u64,
                m.first as u64,
                m.second as u64,
                m.third as u64,
                m.fourth as u64,
            ],
        ),
    }
}

// The request at the front of the bytes, its texts one behind the other in the output; told are its
// kind and how long each of four texts is.
pub fn kdr_basex_read_request(bytes: &[u8], out: &mut [u8], told: &mut [u64]) -> u64
    ensures { Reads (request_read bytes.now (length out.old) (length told.old))
        out.old 0 (bytes_read text_bytes (reading bytes.now)) told.old
        result out.new told.new }
{
    let room = usable(out.len(), 5, told.len());
    tell(told, basex_request::read_request(bytes, &mut out[..room]))
}

// A request of a kind, with four texts of which those that it does not take are empty.
pub fn kdr_basex_write_request(
    out: &mut [u8],
    kind: u8,
    first: &[u8],
    second: &[u8],
    third: &[u8],
    fourth: &[u8],
) -> u64
    ensures { WritesByCode
        (written (length out.old) kind (four first.now second.now third.now fourth.now))
        out.old 0
        (bytes_of kind (four first.now second.now third.now fourth.now)) result out.new }
{
    counted_code(basex_request::write_request(out, kind, first, second, third, fourth))
}
