// Writes Sedna messages into lent output: all of a message or nothing. One function for each body
// shape; on a refusal, and behind the bytes written, the output stays as it was.
#![tactic(auto)]

ghost use Rattle.std.specs.Prelude.{◌≡◌, ◌+◌, ◌≤◌, min, length};
ghost use Rattle.wire.specs.Call.{put_at};
ghost use Rattle.sedna.specs.Encode.{string, pair_bytes, pairs_bytes};
ghost use Rattle.sedna.specs.Message.{Url, Body, message};
ghost use Rattle.sedna_write.specs.Pairs.{given, pairs_of, WritesOptions};
ghost use Rattle.sedna_write.specs.Writing.{judgement, WritesMessage};
ghost use Rattle.sedna_write.specs.inner.Begin.{Begins, PairsFit};

use sedna::Shape;
use wire::Refusal;

// Document 01's order: 2, 8, 11, 10, for a body of n bytes.
#[tactic(auto, unfolding(crate::specs::Writing::judgement))]
fn judge(
    instruction: u32,
    shape: Shape,
    allowed: bool,
    n: usize,
    room: usize,
) -> Result<usize, Refusal>
    ensures { result ≡ judgement instruction shape allowed n room }
{
    sedna::fits(instruction, shape)?;
    if !allowed {
        return Err(Refusal::ValueNotAllowed);
    }
    if 10240 < n {
        return Err(Refusal::NoEncoding);
    }
    wire::in_room(room, 0, 8 + n)
}

// Judges, and writes the eight head bytes where nothing is refused.
fn begin(
    out: &mut [u8],
    instruction: u32,
    shape: Shape,
    allowed: bool,
    n: usize,
) -> Result<usize, Refusal>
    ensures { Begins out.old instruction shape allowed n result out.new }
{
    let k = judge(instruction, shape, allowed, n, out.len())?;
    wire::put_int(out, 0, instruction);
    wire::put_int(out, 4, n as u32);
    Ok(k)
}

// a + b, or 10,241 where that is more: enough to judge a body's length. Each is held against it before
// anything is added, so that no length, even one that no slice has, wraps round to a short body.
fn capped(a: usize, b: usize) -> usize
    ensures { result ≡ min 10241 (a + b) }
{
    (a.min(10241) + b.min(10241)).min(10241)
}

fn put_string(out: &mut [u8], at: usize, text: &[u8])
    requires { (at + 5 + length text.now ≤ length out.old) × (length text.now ≤ 10240) }
    ensures { out.new ≡ put_at out.old at (string text.now) }
{
    wire::put_byte(out, at, 0);
    wire::put_int(out, at + 1, text.len() as u32);
    wire::put_bytes(out, at + 5, text);
}

// A message with an empty body.
pub fn write_empty(out: &mut [u8], instruction: u32) -> Result<usize, Refusal>
    ensures { WritesMessage out.old (message instruction Body.empty) result out.new }
{
    begin(out, instruction, Shape::Empty, true, 0)
}

// A message whose body is one string.
pub fn write_text(out: &mut [u8], instruction: u32, text: &[u8]) -> Result<usize, Refusal>
    ensures { WritesMessage out.old (message instruction (Body.text text.now)) result out.new }
{
    let k = begin(out, instruction, Shape::Text, true, capped(text.len(), 5))?;
    put_string(out, 8, text);
    Ok(k)
}

// A message whose body is a format byte and a text.
pub fn write_statement(
    out: &mut [u8],
    instruction: u32,
    format: u8,
    text: &[u8],
) -> Result<usize, Refusal>
    ensures { WritesMessage out.old (message instruction (Body.statement format text.now)) result out.new }
{
    let allowed = sedna::format_allowed(format);
    let k = begin(
        out,
        instruction,
        Shape::Statement,
        allowed,
        capped(text.len(), 6),
    )?;
    wire::put_byte(out, 8, format);
    put_string(out, 9, text);
    Ok(k)
}

// A message whose body is an int and a string.
pub fn write_coded(
    out: &mut [u8],
    instruction: u32,
    code: u32,
    text: &[u8],
) -> Result<usize, Refusal>
    ensures { WritesMessage out.old (message instruction (Body.coded code text.now)) result out.new }
{
    let k = begin(out, instruction, Shape::Coded, true, capped(text.len(), 9))?;
    wire::put_int(out, 8, code);
    put_string(out, 12, text);
    Ok(k)
}

// A message whose body is a version and two names.
pub fn write_session(
    out: &mut [u8],
    instruction: u32,
    major: u8,
    minor: u8,
    user: &[u8],
    database: &[u8],
) -> Result<usize, Refusal>
    ensures { WritesMessage out.old
        (message instruction (Body.session major minor user.now database.now)) result out.new }
{
    let allowed = sedna::version_allowed(major, minor);
    let n = capped(user.len(), database.len()) + 12;
    let k = begin(out, instruction, Shape::Session, allowed, n)?;
    wire::put_byte(out, 8, major);
    wire::put_byte(out, 9, minor);
    put_string(out, 10, user);
    put_string(out, 15 + user.len(), database);
    Ok(k)
}

// An item's start without a URL: flag 0.
pub fn write_item(
    out: &mut [u8],
    instruction: u32,
    class: u8,
    kind: u8,
    part: &[u8],
) -> Result<usize, Refusal>
    ensures { WritesMessage out.old (message instruction (Body.item class kind Url.absent part.now)) result out.new }
{
    let allowed = sedna::item_allowed(class, kind);
    let k = begin(
        out,
        instruction,
        Shape::Item,
        allowed,
        capped(part.len(), 8),
    )?;
    wire::put_byte(out, 8, class);
    wire::put_byte(out, 9, kind);
    wire::put_byte(out, 10, 0);
    put_string(out, 11, part);
    Ok(k)
}

// An item's start with a URL, which may be empty: flag 1.
// Not one function with an Option: C calls each.
pub fn write_item_url(
    out: &mut [u8],
    instruction: u32,
    class: u8,
    kind: u8,
    url: &[u8],
    part: &[u8],
) -> Result<usize, Refusal>
    ensures { WritesMessage out.old
        (message instruction (Body.item class kind (Url.present url.now) part.now)) result out.new }
{
    let allowed = sedna::item_allowed(class, kind);
    let n = capped(url.len(), part.len()) + 13;
    let k = begin(out, instruction, Shape::Item, allowed, n)?;
    wire::put_byte(out, 8, class);
    wire::put_byte(out, 9, kind);
    wire::put_byte(out, 10, 1);
    put_string(out, 11, url);
    put_string(out, 16 + url.len(), part);
    Ok(k)
}

// Whether there are as many lengths as ids, and they add up to the values.
// Three lists, not one of options: C lends them so.
fn pairs_given(ids: &[u32], lengths: &[usize], values: &[u8]) -> bool
    ensures { result ≡ given ids.now lengths.now values.now }
{
    if ids.len() != lengths.len() {
        return false;
    }
    let mut rest = values.len();
    for n in lengths {
        if rest < *n {
            return false;
        }
        rest -= *n;
    }
    rest == 0
}

// One option at `at`.
fn put_pair(out: &mut [u8], at: usize, id: u32, value: &[u8])
    requires { (at + 9 + length value.now ≤ length out.old) × (length value.now ≤ 10240) }
    ensures { out.new ≡ put_at out.old at (pair_bytes (record { id = id; value = value.now })) }
{
    wire::put_int(out, at, id);
    put_string(out, at + 4, value);
}

// The options, behind the head.
fn put_pairs(out: &mut [u8], ids: &[u32], lengths: &[usize], values: &[u8])
    requires { PairsFit out.old ids.now lengths.now values.now }
    ensures { out.new
        ≡ put_at out.old 8 (pairs_bytes (pairs_of ids.now lengths.now values.now)) }
{
    let mut at = 8;
    let mut from = 0;
    for (id, n) in ids.iter().zip(lengths) {
        let to = from + *n;
        put_pair(out, at, *id, &values[from..to]);
        at += 9 + *n;
        from = to;
    }
}

// A message whose body is any number of options: option k has ids[k] and the next lengths[k] bytes
// of values. Lists that do not belong together are a value that is not allowed.
pub fn write_options(
    out: &mut [u8],
    instruction: u32,
    ids: &[u32],
    lengths: &[usize],
    values: &[u8],
) -> Result<usize, Refusal>
    ensures { WritesOptions out.old instruction ids.now lengths.now values.now result out.new }
{
    let allowed = pairs_given(ids, lengths, values);
    let n = capped(ids.len(), 0) * 9 + capped(values.len(), 0);
    let k = begin(out, instruction, Shape::Options, allowed, n)?;
    put_pairs(out, ids, lengths, values);
    Ok(k)
}
