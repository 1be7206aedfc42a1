// The error of a response.
ghost use Rattle.std.specs.Prelude.{◌≡◌, length};
ghost use Rattle.basex_c.specs.Codes.{lent, Tells};
ghost use Rattle.basex_c.specs.Told.{error_told, error_in, error_read};

use crate::numbers;
use answer_c::refusal_code;
use wire::{Place, Refusal};

// By the six numbers that reading it told.
fn error_in(kind: u8, response: &[u64]) -> Result<Option<Place>, Refusal>
    ensures { result ≡ error_in kind response.now }
{
    if response.len() < 6 {
        return Err(Refusal::NoRoom);
    }
    let (_, reply) = basex::find(kind).ok_or(Refusal::UnknownInstruction)?;
    let status = response[4];
    if 1 < status {
        return Err(Refusal::ValueNotAllowed);
    }
    if status == 0 {
        return Ok(None);
    }
    Ok(Some(basex_response::error_at(
        reply,
        response[0] as usize,
        response[1] as usize,
        response[3] as usize,
        response[5] as usize,
    )))
}

// Two numbers to the front of the lent ones; 0 and none where there is no error.
fn tell_error(place: &mut [u64], answer: Result<Option<Place>, Refusal>) -> u64
    ensures { Tells (lent (length place.old) (error_told answer)) place.old result place.new }
{
    match answer {
        Err(r) => refusal_code(r),
        Ok(None) => 0,
        Ok(Some(at)) => numbers::tell(place, 1, &[at.start as u64, at.len as u64]),
    }
}

// The error of a response that kdr_basex_read_response read, by the kind and the six numbers told: 1
// where the request failed, and told are where its error starts in the output and how long it is.
pub fn kdr_basex_error(kind: u8, response: &[u64], place: &mut [u64]) -> u64
    ensures { Tells (error_read kind response.now (length place.old)) place.old result place.new }
{
    tell_error(place, error_in(kind, response))
}
