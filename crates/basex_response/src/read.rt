// Reads a response: judges the whole first, and stores only then.
ghost use Rattle.std.specs.Prelude.{◌≡◌, ◌-◌, length, drop};
ghost use Rattle.wire.specs.Call.{Gives};
ghost use Rattle.basex_string.specs.Answers.{output_read};
ghost use Rattle.basex.specs.Texts.{ends};
ghost use Rattle.basex_response.specs.Items.{list};
ghost use Rattle.basex_response.specs.Reading.{list_field, fields_of, reading, text_bytes, judgement, answered};
ghost use Rattle.basex_response.specs.inner.Judging.{items_at, ending, end_at, ListFits, list_stored, Fits};

use crate::Replied;
use crate::items::{ItemsAt, items_at};
use basex::Reply;
use basex_string::Ends;
use wire::Refusal;

// The list of items that starts at `at`, where the response has one.
// `reply`, `bytes` and `at` apart: each call goes on at the place that the last one told.
fn list_at(reply: Reply, bytes: &[u8], at: usize) -> Result<ItemsAt, Refusal>
    ensures { result ≡ items_at at (length bytes.now - at) (list_field reply (drop at bytes.now)) }
{
    if basex::is_listed(reply) {
        items_at(basex::is_full(reply), bytes, at)
    } else {
        Ok(ItemsAt {
            count: 0,
            listed: 0,
            next: at,
        })
    }
}

// The status, how long the error behind it is, and where the bytes behind the response start.
#[derive(Clone, Copy)]
struct EndAt {
    status: u8,
    error: usize,
    next: usize,
}

// The status that stands at `at`, and the string behind it.
fn end_at(reply: Reply, bytes: &[u8], at: usize) -> Result<EndAt, Refusal>
    ensures { result ≡ end_at at (length bytes.now - at) (ending reply (drop at bytes.now)) }
{
    if bytes.len() <= at {
        return Err(Refusal::MoreBytes);
    }
    let status = bytes[at];
    if 1 < status {
        return Err(Refusal::ValueNotAllowed);
    }
    let n = basex::strings_behind(reply, status);
    let error = basex::two_at(bytes, at + 1, n)?;
    Ok(EndAt {
        status,
        error: error.first,
        next: error.next,
    })
}

// The fields left to right; nothing is stored.
fn judge(reply: Reply, bytes: &[u8]) -> Result<Replied, Refusal>
    ensures { result ≡ judgement (length bytes.now) (fields_of reply bytes.now) }
{
    let n = basex::strings_ahead(reply);
    let ahead = basex::two_at(bytes, 0, n)?;
    let list = list_at(reply, bytes, ahead.next)?;
    let end = end_at(reply, bytes, list.next)?;
    Ok(Replied {
        first: ahead.first,
        second: ahead.second,
        items: list.count,
        listed: list.listed,
        status: end.status,
        error: end.error,
        read: end.next,
    })
}

// The texts of the items of a list that was judged, one behind the other from `to` on. The byte
// behind the last item is the 00.
fn put_items(full: bool, bytes: &[u8], at: usize, count: usize, out: &mut [u8], to: usize) -> Ends
    requires { ListFits count to (length out.old) (list full (drop at bytes.now)) }
    ensures { Gives (ends at (length bytes.now - at) (list_stored out.old to (list full (drop at bytes.now))))
        (list_stored out.old to (list full (drop at bytes.now))).out result out.new }
{
    let mut from = at;
    let mut end = to;
    for _ in 0..count {
        let n = basex::item_strings(full, bytes[from]);
        let put = basex::store_judged_texts(bytes, from + 1, n, out, end);
        from = put.next;
        end = put.to;
    }
    Ends {
        next: from + 1,
        to: end,
    }
}

// The same of a response that may have no list.
fn put_list(reply: Reply, bytes: &[u8], at: usize, count: usize, out: &mut [u8], to: usize) -> Ends
    requires { ListFits count to (length out.old) (list_field reply (drop at bytes.now)) }
    ensures { Gives
        (ends at (length bytes.now - at) (list_stored out.old to (list_field reply (drop at bytes.now))))
        (list_stored out.old to (list_field reply (drop at bytes.now))).out result out.new }
{
    if basex::is_listed(reply) {
        put_items(basex::is_full(reply), bytes, at, count, out, to)
    } else {
        Ends { next: at, to }
    }
}

// The texts of a response that was judged: those ahead, those of the items, and the error.
fn store(reply: Reply, bytes: &[u8], items: usize, status: u8, out: &mut [u8])
    requires { Fits items status (length out.old) (fields_of reply bytes.now) }
    ensures { out.new ≡ output_read text_bytes out.old 0 (fields_of reply bytes.now) }
{
    let n = basex::strings_ahead(reply);
    let ahead = basex::store_judged_texts(bytes, 0, n, out, 0);
    let list = put_list(reply, bytes, ahead.next, items, out, ahead.to);
    let m = basex::strings_behind(reply, status);
    basex::store_judged_texts(bytes, list.next + 1, m, out, list.to);
}

// "with 10 last": the room is compared with all texts together, and nothing is stored before. No
// text is longer than its bytes, so the sum fits.
fn read_as(reply: Reply, bytes: &[u8], out: &mut [u8]) -> Result<Replied, Refusal>
    ensures { Gives (answered (length bytes.now) (length out.old) (fields_of reply bytes.now))
        (output_read text_bytes out.old 0 (fields_of reply bytes.now)) result out.new }
{
    let told = judge(reply, bytes)?;
    if out.len() < told.first + told.second + told.listed + told.error {
        return Err(Refusal::NoRoom);
    }
    store(reply, bytes, told.items, told.status, out);
    Ok(told)
}

// The response to a request that starts with the byte `kind`: all of it, its texts one behind the
// other in front of the output, or a refusal and nothing.
pub fn read_response(kind: u8, bytes: &[u8], out: &mut [u8]) -> Result<Replied, Refusal>
    ensures { Gives (answered (length bytes.now) (length out.old) (reading kind bytes.now))
        (output_read text_bytes out.old 0 (reading kind bytes.now)) result out.new }
{
    if bytes.is_empty() {
        return Err(Refusal::MoreBytes);
    }
    let (_, reply) = basex::find(kind).ok_or(Refusal::UnknownInstruction)?;
    read_as(reply, bytes, out)
}
