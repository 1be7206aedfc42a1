// The static library for programs in C and Rust: each export calls the function of its name in
// parts_c, under the same contract.
#![tactic(auto)]

ghost use Rattle.std.specs.Prelude.{◌≡◌};
ghost use Rattle.parts_cut.specs.Part.{statement_parts, item_count, typed_item_count, url_parts};
ghost use Rattle.parts_cut.specs.Part.{statement_part, item_part, typed_item_part, typed_item_url_part};
ghost use Rattle.answer_c.specs.Codes.{counted_code};
ghost use Rattle.parts_c.specs.Parts.{WritesPartByCode};

mod joining;

#[unsafe(no_mangle)]
pub extern "C" fn kdr_statement_parts(n: usize) -> u64
    ensures { result ≡ statement_parts n }
{
    parts_c::kdr_statement_parts(n)
}

#[unsafe(no_mangle)]
pub extern "C" fn kdr_item_parts(n: usize) -> u64
    ensures { result ≡ item_count n }
{
    parts_c::kdr_item_parts(n)
}

#[unsafe(no_mangle)]
pub extern "C" fn kdr_typed_item_parts(n: usize) -> u64
    ensures { result ≡ typed_item_count n }
{
    parts_c::kdr_typed_item_parts(n)
}

#[unsafe(no_mangle)]
pub extern "C" fn kdr_typed_item_url_parts(n: usize, url: usize) -> u64
    ensures { result ≡ counted_code (url_parts n url) }
{
    parts_c::kdr_typed_item_url_parts(n, url)
}

#[unsafe(no_mangle)]
pub extern "C" fn kdr_write_statement_part(out: &mut [u8], format: u8, text: &[u8], k: usize) -> u64
    ensures { WritesPartByCode (statement_part format text.now k) out.old result out.new }
{
    parts_c::kdr_write_statement_part(out, format, text, k)
}

#[unsafe(no_mangle)]
pub extern "C" fn kdr_write_item_part(out: &mut [u8], text: &[u8], k: usize) -> u64
    ensures { WritesPartByCode (item_part text.now k) out.old result out.new }
{
    parts_c::kdr_write_item_part(out, text, k)
}

#[unsafe(no_mangle)]
pub extern "C" fn kdr_write_typed_item_part(
    out: &mut [u8],
    class: u8,
    kind: u8,
    text: &[u8],
    k: usize,
) -> u64
    ensures { WritesPartByCode (typed_item_part class kind text.now k) out.old result out.new }
{
    parts_c::kdr_write_typed_item_part(out, class, kind, text, k)
}

#[unsafe(no_mangle)]
pub extern "C" fn kdr_write_typed_item_url_part(
    out: &mut [u8],
    class: u8,
    kind: u8,
    url: &[u8],
    text: &[u8],
    k: usize,
) -> u64
    ensures { WritesPartByCode (typed_item_url_part class kind url.now text.now k) out.old result out.new }
{
    parts_c::kdr_write_typed_item_url_part(out, class, kind, url, text, k)
}
