// Cutting and joining for programs in C and Rust: numbers and slices in, numbers out. Cutting,
// here: how many messages a statement or an item is cut into, and the k-th of them, from 0,
// written into lent output.
#![tactic(auto)]

ghost use Rattle.std.specs.Prelude.{◌≡◌};
ghost use Rattle.parts_cut.specs.Part.{statement_parts, item_count, typed_item_count, url_parts};
ghost use Rattle.parts_cut.specs.Part.{statement_part, item_part, typed_item_part, typed_item_url_part};
ghost use Rattle.answer_c.specs.Codes.{counted_code};
ghost use Rattle.parts_c.specs.Parts.{WritesPartByCode};

use answer_c::counted_code;

mod joining;

pub use joining::{kdr_join, kdr_open};

pub fn kdr_statement_parts(n: usize) -> u64
    ensures { result ≡ statement_parts n }
{
    parts_cut::statement_parts(n) as u64
}

pub fn kdr_item_parts(n: usize) -> u64
    ensures { result ≡ item_count n }
{
    parts_cut::item_parts(n) as u64
}

pub fn kdr_typed_item_parts(n: usize) -> u64
    ensures { result ≡ typed_item_count n }
{
    parts_cut::typed_item_parts(n) as u64
}

// 11 for a URL that leaves no room.
pub fn kdr_typed_item_url_parts(n: usize, url: usize) -> u64
    ensures { result ≡ counted_code (url_parts n url) }
{
    counted_code(parts_cut::typed_item_url_parts(n, url))
}

pub fn kdr_write_statement_part(out: &mut [u8], format: u8, text: &[u8], k: usize) -> u64
    ensures { WritesPartByCode (statement_part format text.now k) out.old result out.new }
{
    counted_code(parts_cut::write_statement_part(out, format, text, k))
}

pub fn kdr_write_item_part(out: &mut [u8], text: &[u8], k: usize) -> u64
    ensures { WritesPartByCode (item_part text.now k) out.old result out.new }
{
    counted_code(parts_cut::write_item_part(out, text, k))
}

pub fn kdr_write_typed_item_part(out: &mut [u8], class: u8, kind: u8, text: &[u8], k: usize) -> u64
    ensures { WritesPartByCode (typed_item_part class kind text.now k) out.old result out.new }
{
    counted_code(parts_cut::write_typed_item_part(out, class, kind, text, k))
}

pub fn kdr_write_typed_item_url_part(
    out: &mut [u8],
    class: u8,
    kind: u8,
    url: &[u8],
    text: &[u8],
    k: usize,
) -> u64
    ensures { WritesPartByCode (typed_item_url_part class kind url.now text.now k) out.old result out.new }
{
    counted_code(parts_cut::write_typed_item_url_part(out, class, kind, url, text, k))
}
