// Cuts statements and items into messages: how many there are, and the k-th written into lent
// output. What is written is a part of the lent text; nothing is gathered on the way.
#![tactic(auto)]

ghost use Rattle.std.specs.Prelude.{Ok, Err, ◌≡◌, ◌<◌, ◌-◌, ◌*◌, leb, length, take, drop};
ghost use Rattle.std.proofs.Math.ListN.{get_elem?};
ghost use Rattle.wire.specs.Bytes.{if};
ghost use Rattle.wire.specs.Call.{Writes};
ghost use Rattle.wire.specs.declared.Refusal.TheVariants.{NoEncoding};
ghost use Rattle.parts_cut.specs.Cut.{item_parts};
ghost use Rattle.parts_cut.specs.Part.{piece_count, statement_parts, item_parts_from, item_count, typed_item_count, url_parts, written_of};
ghost use Rattle.parts_cut.specs.Part.{part_bytes, WritesPart, statement_part, item_part, typed_item_part, typed_item_url_part};

use sedna::names;
use sedna_write::{write_empty, write_item, write_item_url, write_statement, write_text};
use wire::{Place, Refusal, first, part, rest};

// The text that a full body of 10,240 bytes holds: a statement's, behind its format byte.
pub const STATEMENT_ROOM: usize = 10234;

// An ItemPart's.
pub const PART_ROOM: usize = 10235;

// An ItemStart's without a URL.
pub const START_ROOM: usize = 10232;

// An ItemStart's and its URL's together.
pub const URL_ROOM: usize = 10227;

// How many pieces of m bytes n bytes have, none of them empty.
fn piece_count(n: usize, m: usize) -> usize
    requires { 0 < m }
    ensures { result ≡ piece_count m n }
{
    // Not `div_ceil`, which asks for the remainder too.
    match n.checked_sub(1) {
        Some(last) => last / m + 1,
        None => 0,
    }
}

// How many messages a statement of n bytes is cut into.
pub fn statement_parts(n: usize) -> usize
    ensures { result ≡ statement_parts n }
{
    if n <= STATEMENT_ROOM {
        1
    } else {
        piece_count(n, STATEMENT_ROOM) + 1
    }
}

// How many messages n bytes have whose first takes so many of them; ItemParts take the others.
fn parts_from(first: usize, n: usize) -> usize
    ensures { result ≡ item_parts_from first n }
{
    1 + piece_count(n.saturating_sub(first), PART_ROOM)
}

// How many messages an item of n bytes is cut into, up to 3.0.
pub fn item_parts(n: usize) -> usize
    ensures { result ≡ item_count n }
{
    parts_from(PART_ROOM, n)
}

// How many in 4.0, without a URL.
pub fn typed_item_parts(n: usize) -> usize
    ensures { result ≡ typed_item_count n }
{
    parts_from(START_ROOM, n)
}

// What a URL of so many bytes leaves of an ItemStart.
fn room_beside(url: usize) -> Result<usize, Refusal>
    ensures { result ≡ if (leb url 10227) (Ok (10227 - url)) (Err NoEncoding) }
{
    URL_ROOM.checked_sub(url).ok_or(Refusal::NoEncoding)
}

// How many in 4.0, with a URL of so many bytes.
pub fn typed_item_url_parts(n: usize, url: usize) -> Result<usize, Refusal>
    ensures { result ≡ url_parts n url }
{
    Ok(parts_from(room_beside(url)?, n))
}

// Piece k of a text in pieces of m bytes. That there is one keeps the product from wrapping. Not
// `chunks(m).nth(k)`, which steps over the k pieces ahead of it.
fn piece(text: &[u8], k: usize, m: usize) -> &[u8]
    requires { k * m < length text.now }
    ensures { result.now ≡ take m (drop (k * m) text.now) }
{
    part(
        text,
        Place {
            start: k * m,
            len: m,
        },
    )
}

// Part k of a statement's messages.
pub fn write_statement_part(
    out: &mut [u8],
    format: u8,
    text: &[u8],
    k: usize,
) -> Result<usize, Refusal>
    ensures { WritesPart (statement_part format text.now k) out.old result out.new }
{
    if !sedna::format_allowed(format) {
        return Err(Refusal::ValueNotAllowed);
    }
    if text.len() <= STATEMENT_ROOM {
        return match k {
            0 => write_statement(out, names::EXECUTE, format, text),
            _ => Err(Refusal::NoSuchPart),
        };
    }
    let count = piece_count(text.len(), STATEMENT_ROOM);
    if k < count {
        write_statement(
            out,
            names::EXECUTE_LONG,
            format,
            piece(text, k, STATEMENT_ROOM),
        )
    } else if k == count {
        write_empty(out, names::LONG_QUERY_END)
    } else {
        Err(Refusal::NoSuchPart)
    }
}

// ItemPart k of what the first message of an item leaves.
fn write_following(out: &mut [u8], text: &[u8], k: usize) -> Result<usize, Refusal>
    ensures { Writes (written_of (length out.old) (get_elem? (item_parts text.now) k)) out.old 0
        (part_bytes (get_elem? (item_parts text.now) k)) result out.new }
{
    if k < piece_count(text.len(), PART_ROOM) {
        write_text(out, names::ITEM_PART, piece(text, k, PART_ROOM))
    } else {
        Err(Refusal::NoSuchPart)
    }
}

// Part k of an item's messages, up to 3.0.
pub fn write_item_part(out: &mut [u8], text: &[u8], k: usize) -> Result<usize, Refusal>
    ensures { WritesPart (item_part text.now k) out.old result out.new }
{
    match k {
        0 => write_text(out, names::ITEM_PART, first(text, PART_ROOM)),
        _ => write_following(out, rest(text, PART_ROOM), k - 1),
    }
}

// Part k of an item's messages in 4.0, without a URL. Class and type are judged for every part: an
// ItemPart has neither.
pub fn write_typed_item_part(
    out: &mut [u8],
    class: u8,
    kind: u8,
    text: &[u8],
    k: usize,
) -> Result<usize, Refusal>
    ensures { WritesPart (typed_item_part class kind text.now k) out.old result out.new }
{
    if !sedna::item_allowed(class, kind) {
        return Err(Refusal::ValueNotAllowed);
    }
    match k {
        0 => write_item(out, names::ITEM_START, class, kind, first(text, START_ROOM)),
        _ => write_following(out, rest(text, START_ROOM), k - 1),
    }
}

// Part k of an item's messages in 4.0, with a URL. Not one function with an `Option` for the URL: C
// has a call for each, which answers as one of these two.
pub fn write_typed_item_url_part(
    out: &mut [u8],
    class: u8,
    kind: u8,
    url: &[u8],
    text: &[u8],
    k: usize,
) -> Result<usize, Refusal>
    ensures { WritesPart (typed_item_url_part class kind url.now text.now k) out.old result out.new }
{
    if !sedna::item_allowed(class, kind) {
        return Err(Refusal::ValueNotAllowed);
    }
    let room = room_beside(url.len())?;
    match k {
        0 => write_item_url(out, names::ITEM_START, class, kind, url, first(text, room)),
        _ => write_following(out, rest(text, room), k - 1),
    }
}
