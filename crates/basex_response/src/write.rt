// Writes a response into lent output: item by item, and then its end. Its fields come one by one, not
// in a struct: so C's call and `write_end` have them. All of a part or nothing: on a refusal, and behind
// the bytes written, the output stays as it was.
ghost use Rattle.std.specs.Prelude.{◌≡◌, ◌+◌, ◌≤◌, length};
ghost use Rattle.wire.specs.Call.{in_room, put_at, Gives, Writes};
ghost use Rattle.basex.specs.Kinds.{find_of};
ghost use Rattle.basex.specs.Response.{item_bytes};
ghost use Rattle.basex_response.specs.Writing.{item_of, item_written, full_of, end_written, end_bytes};
ghost use Rattle.basex_response.specs.inner.Spelling.{zero_if, item_parts, ahead_parts, last_parts, end_parts, end_allowed};

use basex::{Reply, has_place, put_string_if, size_if};
use wire::Refusal;

// The 00 behind the items; where the next field starts.
// A flag, not a closure: the table of replies has it.
fn put_zero(out: &mut [u8], at: usize, present: bool) -> usize
    requires { at + length (zero_if present) ≤ length out.old }
    ensures { Gives (at + length (zero_if present)) (put_at out.old at (zero_if present)) result out.new }
{
    if present {
        wire::put_byte(out, at, 0);
        at + 1
    } else {
        at
    }
}

// An item that may be written, or 10.
fn put_item(
    out: &mut [u8],
    at: usize,
    id: u8,
    uris: bool,
    uri: &[u8],
    text: &[u8],
) -> Result<usize, Refusal>
    ensures { Gives (in_room (length out.old) at (length (item_parts uris id uri.now text.now)))
        (put_at out.old at (item_parts uris id uri.now text.now)) result out.new }
{
    let first = size_if(uris, uri);
    let second = size_if(true, text);
    let n = wire::parts_in_room(out.len(), at, 1, first, second, 0)?;
    wire::put_byte(out, at, id);
    let next = put_string_if(out, at + 1, uris, uri);
    put_string_if(out, next, true, text);
    Ok(n)
}

// From `at` on an item of the response to a request that starts with the byte `kind`. The URI is
// empty where the item has none.
pub fn write_item(
    out: &mut [u8],
    at: usize,
    kind: u8,
    id: u8,
    uri: &[u8],
    text: &[u8],
) -> Result<usize, Refusal>
    ensures { Writes (item_written (length out.old) at kind id uri.now text.now)
        out.old at (item_bytes (item_of (full_of (find_of kind)) id uri.now text.now)) result out.new }
{
    let (_, reply) = basex::find(kind).ok_or(Refusal::UnknownInstruction)?;
    let full = basex::is_full(reply);
    let uris = basex::item_strings(full, id) == 2;
    if !basex::is_listed(reply) || !basex::id_allowed(id) || !has_place(uris, uri) {
        return Err(Refusal::ValueNotAllowed);
    }
    put_item(out, at, id, uris, uri, text)
}

// "Status above 01: 8.", and no text that the response does not take.
fn end_allowed(reply: Reply, first: &[u8], second: &[u8], status: u8, error: &[u8]) -> bool
    ensures { result ≡ end_allowed reply first.now second.now status error.now }
{
    let ahead = basex::strings_ahead(reply);
    let behind = basex::strings_behind(reply, status);
    status <= 1
        && has_place(0 < ahead, first)
        && has_place(1 < ahead, second)
        && has_place(0 < behind, error)
}

// How many bytes the status takes, with the 00 ahead of it where there is a list.
// A flag, not a closure: the table of replies has it.
fn status_len(list: bool) -> usize
    ensures { result ≡ length (zero_if list) + 1 }
{
    if list { 2 } else { 1 }
}

// How many bytes an end has, or 10.
fn end_room(
    room: usize,
    at: usize,
    reply: Reply,
    first: &[u8],
    second: &[u8],
    status: u8,
    error: &[u8],
) -> Result<usize, Refusal>
    ensures { result ≡ in_room room at (length (end_parts reply first.now second.now status error.now)) }
{
    let ahead = basex::strings_ahead(reply);
    let a = size_if(0 < ahead, first);
    let b = size_if(1 < ahead, second);
    let c = status_len(basex::is_listed(reply));
    let behind = basex::strings_behind(reply, status);
    let d = size_if(0 < behind, error);
    wire::parts_in_room(room, at, a, b, c, d)
}

// The first n of two texts; where the next field starts.
fn put_ahead(out: &mut [u8], at: usize, n: usize, first: &[u8], second: &[u8]) -> usize
    requires { at + length (ahead_parts n first.now second.now) ≤ length out.old }
    ensures { Gives (at + length (ahead_parts n first.now second.now))
        (put_at out.old at (ahead_parts n first.now second.now)) result out.new }
{
    let next = put_string_if(out, at, 0 < n, first);
    put_string_if(out, next, 1 < n, second)
}

// The 00 behind the items, the status, the error.
fn put_last(out: &mut [u8], at: usize, list: bool, status: u8, n: usize, error: &[u8])
    requires { at + length (last_parts list status n error.now) ≤ length out.old }
    ensures { out.new ≡ put_at out.old at (last_parts list status n error.now) }
{
    let next = put_zero(out, at, list);
    wire::put_byte(out, next, status);
    put_string_if(out, next + 1, 0 < n, error);
}

// An end that may be written, or 10.
fn put_end(
    out: &mut [u8],
    at: usize,
    reply: Reply,
    first: &[u8],
    second: &[u8],
    status: u8,
    error: &[u8],
) -> Result<usize, Refusal>
    ensures { Gives
        (in_room (length out.old) at (length (end_parts reply first.now second.now status error.now)))
        (put_at out.old at (end_parts reply first.now second.now status error.now)) result out.new }
{
    let n = end_room(out.len(), at, reply, first, second, status, error)?;
    let ahead = basex::strings_ahead(reply);
    let list = basex::is_listed(reply);
    let behind = basex::strings_behind(reply, status);
    let next = put_ahead(out, at, ahead, first, second);
    put_last(out, next, list, status, behind, error);
    Ok(n)
}

// From `at` on all of a response that has no list, and the end (00, status, error) of one that has
// a list, behind its items. A text that the response does not take is empty.
pub fn write_end(
    out: &mut [u8],
    at: usize,
    kind: u8,
    first: &[u8],
    second: &[u8],
    status: u8,
    error: &[u8],
) -> Result<usize, Refusal>
    ensures { Writes (end_written (length out.old) at kind first.now second.now status error.now)
        out.old at (end_bytes (find_of kind) first.now second.now status error.now) result out.new }
{
    let (_, reply) = basex::find(kind).ok_or(Refusal::UnknownInstruction)?;
    if !end_allowed(reply, first, second, status, error) {
        return Err(Refusal::ValueNotAllowed);
    }
    put_end(out, at, reply, first, second, status, error)
}
