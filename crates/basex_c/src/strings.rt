// Strings.
ghost use Rattle.std.specs.Prelude.{◌≡◌, ◌-◌, ◌≤◌, ltb, length, drop};
ghost use Rattle.wire.specs.Bytes.{if};
ghost use Rattle.wire.specs.Call.{in_room};
ghost use Rattle.basex_string.specs.Scan.{reading};
ghost use Rattle.basex_string.specs.Strings.{string};
ghost use Rattle.basex_c.specs.Codes.{lent, Tells, Reads};
ghost use Rattle.answer_c.specs.Codes.{WritesByCode};
ghost use Rattle.basex_c.specs.Told.{string_told, bytes_read, judging, decoding};

use crate::numbers;
use answer_c::{counted_code, refusal_code};
use basex_string::StringAt;
use wire::Refusal;

// How many bytes the text takes as a string.
pub fn kdr_basex_string_len(text: &[u8]) -> u64
    ensures { result ≡ length (string text.now) }
{
    basex_string::string_len(text) as u64
}

// The text as a string, from `at` on.
pub fn kdr_basex_write_string(out: &mut [u8], at: usize, text: &[u8]) -> u64
    ensures { WritesByCode (in_room (length out.old) at (length (string text.now)))
        out.old at (string text.now) result out.new }
{
    counted_code(basex_string::write_string(out, at, text))
}

// How many bytes stand from `at` up to the place behind them; no reader answers one ahead of `at`.
pub(crate) fn span(at: usize, behind: usize) -> u64
    ensures { result ≡ behind - at }
{
    if behind < at { 0 } else { (behind - at) as u64 }
}

// How much of the output a call is lent: none where fewer numbers are lent than it has to tell. It
// then stores nothing, and its answer is 10 where nothing else is refused.
pub(crate) fn usable(out: usize, told: usize, lent: usize) -> usize
    ensures { (result ≡ if (ltb lent told) 0 out) × (result ≤ out) }
{
    if lent < told { 0 } else { out }
}

// One number to the front of the lent ones.
fn tell(told: &mut [u64], at: usize, place: Result<StringAt, Refusal>) -> u64
    ensures { Tells (lent (length told.old) (string_told at place)) told.old result told.new }
{
    match place {
        Err(r) => refusal_code(r),
        Ok(found) => numbers::tell(told, span(at, found.next), &[found.len as u64]),
    }
}

// The string that starts at `at`, judged; told is how many bytes it has, decoded.
pub fn kdr_basex_string_at(bytes: &[u8], at: usize, told: &mut [u64]) -> u64
    ensures { Tells (judging bytes.now at (length told.old)) told.old result told.new }
{
    tell(told, at, basex_string::string_at(bytes, at))
}

// The same, and its bytes put into the output from `to` on.
pub fn kdr_basex_decode(bytes: &[u8], at: usize, out: &mut [u8], to: usize, told: &mut [u64]) -> u64
    ensures { Reads (decoding bytes.now at (length out.old) to (length told.old))
        out.old to (bytes_read (λ s. s) (reading (drop at bytes.now))) told.old
        result out.new told.new }
{
    let room = usable(out.len(), 1, told.len());
    tell(
        told,
        at,
        basex_string::decode(bytes, at, &mut out[..room], to),
    )
}
