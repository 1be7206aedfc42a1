// Writing a request: what a kind takes, and its strings one behind the other. Four texts, not a list
// of them: so C's call and `write_request` have them, and nothing is put together for it.
ghost use Rattle.std.specs.Prelude.{◌≡◌, ◌≤◌, length, take};
ghost use Rattle.wire.specs.Call.{Gives, Writes, put_at};
ghost use Rattle.basex.specs.Request.{Request, encode, opens};
ghost use Rattle.basex.specs.Texts.{unused};
ghost use Rattle.basex_request.specs.Calls.{four};
ghost use Rattle.basex_request.specs.Writing.{request_written};

use basex::{has_place, put_string_if, size_if};
use wire::Refusal;

// Whether the texts beyond the first n are empty.
pub fn takes(n: usize, first: &[u8], second: &[u8], third: &[u8], fourth: &[u8]) -> bool
    ensures { result ≡ unused n (four first.now second.now third.now fourth.now) }
{
    has_place(0 < n, first)
        && has_place(1 < n, second)
        && has_place(2 < n, third)
        && has_place(3 < n, fourth)
}

// Whether the text is a COMMAND: its first byte tells.
fn opens_command(text: &[u8]) -> bool
    ensures { result ≡ opens text.now }
{
    !text.is_empty() && basex::starts_command(text[0])
}

pub fn write_command(out: &mut [u8], text: &[u8]) -> Result<usize, Refusal>
    ensures { Writes (request_written (length out.old) (Request.command text.now))
        out.old 0 (encode (Request.command text.now)) result out.new }
{
    if !opens_command(text) {
        return Err(Refusal::NoEncoding);
    }
    basex_string::write_string(out, 0, text)
}

// The first byte, and n strings behind it.
fn put_coded(
    out: &mut [u8],
    kind: u8,
    n: usize,
    first: &[u8],
    second: &[u8],
    third: &[u8],
    fourth: &[u8],
) -> usize
    requires { length (encode (Request.coded kind (take n (four first.now second.now third.now fourth.now)))) ≤ length out.old }
    ensures { Gives
        (length (encode (Request.coded kind (take n (four first.now second.now third.now fourth.now)))))
        (put_at out.old 0
        (encode (Request.coded kind (take n (four first.now second.now third.now fourth.now)))))
        result out.new }
{
    wire::put_byte(out, 0, kind);
    let b = put_string_if(out, 1, 0 < n, first);
    let c = put_string_if(out, b, 1 < n, second);
    let d = put_string_if(out, c, 2 < n, third);
    put_string_if(out, d, 3 < n, fourth)
}

pub fn write_coded(
    out: &mut [u8],
    kind: u8,
    n: usize,
    first: &[u8],
    second: &[u8],
    third: &[u8],
    fourth: &[u8],
) -> Result<usize, Refusal>
    ensures { Writes
        (request_written (length out.old)
        (Request.coded kind (take n (four first.now second.now third.now fourth.now))))
        out.old 0
        (encode (Request.coded kind (take n (four first.now second.now third.now fourth.now))))
        result out.new }
{
    let a = size_if(0 < n, first);
    let b = size_if(1 < n, second);
    let c = size_if(2 < n, third);
    let d = size_if(3 < n, fourth);
    wire::parts_in_room(out.len(), 1, a, b, c, d)?;
    Ok(put_coded(out, kind, n, first, second, third, fourth))
}
