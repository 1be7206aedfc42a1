// BaseX strings: written into lent output, judged where they stand, and decoded into lent output.
// Writing and decoding put all of a string or nothing: on a refusal the output stays as it was.
// `store_judged_text` alone refuses nothing: it is an inner tool for readers that judged first.
#![tactic(auto)]

ghost use Rattle.std.specs.Prelude.{Ok, not, false, ◌≡◌, [], ◌∷◌, ◌++◌, ◌+◌, ◌*◌, ◌≤◌, ◌<◌, min, eqb, leb, length, drop, get_or};
ghost use Rattle.wire.specs.Bytes.{if, splice};
ghost use Rattle.wire.specs.Call.{in_room, put_at, Gives, Writes};
ghost use Rattle.basex_string.specs.Strings.{special, string};
ghost use Rattle.basex_string.specs.Scan.{reading};
ghost use Rattle.basex_string.specs.Answers.{located, decoded, output_read};
ghost use Rattle.basex_string.specs.inner.Runs.{run, pairs};
ghost use Rattle.basex_string.specs.inner.Storing.{text_read, Remains, StoredSome};

pub use put::store_judged_text;
use wire::Refusal;

mod count;
mod put;

// How many bytes a string has, decoded, and where the next field starts.
#[derive(Clone, Copy)]
pub struct StringAt {
    pub len: usize,
    pub next: usize,
}

// Where the next field starts, and where the output is free again.
#[derive(Clone, Copy)]
pub struct Ends {
    pub next: usize,
    pub to: usize,
}

// 00 and FF.
fn is_special(b: u8) -> bool
    ensures { result ≡ special b }
{
    b == 0 || b == 255
}

// Whether none of sixteen bytes is special. Every byte is looked at, so that the compiler compares
// them all at once.
fn plain_block(s: &[u8], at: usize) -> bool
    requires { at + 16 ≤ length s.now }
    ensures { result ≡ leb 16 (run (drop at s.now)) }
{
    let mut plain = true;
    for b in &s[at..at + 16] {
        if is_special(*b) {
            plain = false;
        }
    }
    plain
}

// Past blocks of plain bytes, not beyond the next special byte.
fn skip_blocks(s: &[u8], from: usize) -> usize
    ensures { (from ≤ result) × (result ≤ from + run (drop from s.now)) }
{
    if s.len() < 16 {
        return from;
    }
    let last = s.len() - 16;
    let mut at = from;
    // No iterator over blocks: where they end is the answer.
    while at <= last && plain_block(s, at) {
        at += 16;
    }
    at
}

// Past plain bytes, sixteen at most: the compiler writes so short a loop out.
fn few_end(s: &[u8], from: usize) -> usize
    ensures { result ≡ from + min 16 (run (drop from s.now)) }
{
    let mut at = from;
    // No iterator: where the bytes end is the answer.
    while at < s.len() && !is_special(s[at]) {
        at += 1;
        // Behind the step, so that the compiler writes the sixteen turns out.
        if at - from == 16 {
            return at;
        }
    }
    at
}

// Past plain bytes: blocks, and then a few one by one, up to where no block is plain.
fn run_end(s: &[u8], from: usize) -> usize
    ensures { (from + min 16 (run (drop from s.now)) ≤ result)
        × (result ≤ from + run (drop from s.now)) }
{
    let blocks = skip_blocks(s, from);
    few_end(s, blocks)
}

// How many pairs stand at `from`, eight at most. Where one stands, others often follow.
fn pairs_at(s: &[u8], from: usize) -> usize
    requires { from ≤ length s.now }
    ensures { (result ≤ pairs (drop from s.now)) × (from + 2 * result ≤ length s.now) }
{
    let mut n: usize = 0;
    let mut at = from;
    // No iterator over pairs: the second byte is looked at only behind an FF.
    while n < 8 && 2 <= s.len() - at && s[at] == 255 && is_special(s[at + 1]) {
        n += 1;
        at += 2;
    }
    n
}

// How many bytes a text takes as a string: an FF for each special byte, and the 00.
pub fn string_len(text: &[u8]) -> usize
    ensures { result ≡ length (string text.now) }
{
    text.len() + count::count_specials(text) + 1
}

// A part of a text, byte by byte, and a 00 behind it, whose place is the answer. An FF is stored for
// every byte, and a plain byte takes its place: no branch, which the processor could guess wrong.
fn store_few(out: &mut [u8], at: usize, part: &[u8]) -> usize
    requires { at + length (string part.now) ≤ length out.old }
    ensures { (result + 1 ≡ at + length (string part.now))
        × (out.new ≡ splice out.old at (string part.now)) }
{
    let mut to = at;
    for b in part {
        out[to] = 255;
        if is_special(*b) {
            to += 1;
        }
        out[to] = *b;
        to += 1;
    }
    out[to] = 0;
    to
}

// Sixteen bytes, by way of an array of its own, which overlaps neither slice: the compiler makes one move of it.
#[inline(always)]
fn put_block(out: &mut [u8], at: usize, block: &[u8])
    requires { length block.now ≡ 16 }
    ensures { out.new ≡ put_at out.old at block.now }
{
    let mut own = [0u8; 16];
    own.copy_from_slice(block);
    wire::put_bytes(out, at, &own);
}

// Blocks of plain bytes go in one move, others byte by byte. The 00 behind a part is written over by
// what follows it.
fn store_string(out: &mut [u8], at: usize, text: &[u8])
    requires { at + length (string text.now) ≤ length out.old }
    ensures { out.new ≡ splice out.old at (string text.now) }
{
    let mut to = at;
    let mut i: usize = 0;
    // No iterator over blocks: what is left behind the last one ends the string, even where it is empty.
    while 16 <= text.len() - i {
        let end = i + 16;
        if plain_block(text, i) {
            put_block(out, to, &text[i..end]);
            to += 16;
        } else {
            to = store_few(out, to, &text[i..end]);
        }
        i = end;
    }
    store_few(out, to, &text[i..]);
}

// A text with no special byte.
fn store_plain(out: &mut [u8], at: usize, text: &[u8])
    requires { at + length text.now + 1 ≤ length out.old }
    ensures { out.new ≡ splice out.old at (text.now ++ 0 ∷ []) }
{
    wire::put_bytes(out, at, text);
    out[at + text.len()] = 0;
}

// The text as a string, from `at` on.
pub fn write_string(out: &mut [u8], at: usize, text: &[u8]) -> Result<usize, Refusal>
    ensures { Writes (in_room (length out.old) at (length (string text.now)))
        out.old at (string text.now) result out.new }
{
    let n = wire::in_room(out.len(), at, string_len(text))?;
    if n == text.len() + 1 {
        store_plain(out, at, text);
    } else {
        store_string(out, at, text);
    }
    Ok(n)
}

// The string that starts at `at`, judged; nothing is stored.
pub fn string_at(bytes: &[u8], at: usize) -> Result<StringAt, Refusal>
    ensures { result ≡ located (length bytes.now) (reading (drop at bytes.now)) }
{
    let mut len: usize = 0;
    let mut i = at;
    // No iterator: the bytes say how far a step goes.
    while i < bytes.len() {
        match bytes[i] {
            0 => return Ok(StringAt { len, next: i + 1 }),
            255 => {
                if bytes.len() - i < 2 {
                    return Err(Refusal::MoreBytes);
                }
                if !is_special(bytes[i + 1]) {
                    return Err(Refusal::BadEscape);
                }
                let pairs = 1 + pairs_at(bytes, i + 2);
                len += pairs;
                i += 2 * pairs;
            }
            _ => {
                let end = run_end(bytes, i);
                len += end - i;
                i = end;
            }
        }
    }
    Err(Refusal::MoreBytes)
}

// Whether the byte is an FF that escapes the next one.
fn opens(b: u8, escaped: bool) -> bool
    ensures { result ≡ if (eqb b 255) (not escaped) false }
{
    b == 255 && !escaped
}

// How many bytes of the text were stored, and where the next ones stand.
#[derive(Clone, Copy)]
struct FewStored {
    count: usize,
    next: usize,
}

// What stands at `from`, sixteen bytes at most, one by one. An FF that escapes is stored too, and what
// it escapes takes its place: no branch, which the processor could guess wrong.
fn put_few(bytes: &[u8], from: usize, out: &mut [u8], to: usize, most: usize) -> FewStored
    requires { Remains bytes.now from out.old to most × (0 < most) }
    ensures { StoredSome bytes.now from result.next out.old out.new to most result.count }
{
    let mut count: usize = 0;
    let mut i = from;
    let mut escaped = false;
    // No iterator: the bytes and the text are passed at a pace of their own.
    while count < most {
        let b = bytes[i];
        out[to + count] = b;
        escaped = opens(b, escaped);
        if !escaped {
            count += 1;
        }
        i += 1;
        if i - from == 16 {
            if escaped {
                return FewStored { count, next: i - 1 };
            }
            return FewStored { count, next: i };
        }
    }
    FewStored { count, next: i }
}

// What pairs from `from` on escape, eight at most; the answer is how many.
fn put_pairs(bytes: &[u8], from: usize, out: &mut [u8], to: usize, most: usize) -> usize
    requires { Remains bytes.now from out.old to most × (0 < most) × (get_or bytes.now from 0 ≡ 255) }
    ensures { StoredSome bytes.now from (from + 2 * result) out.old out.new to most result
        × (from + 2 * result ≤ length bytes.now) }
{
    let mut n: usize = 0;
    // No iterator: of two bytes read one is stored.
    while n < most && bytes[from + 2 * n] == 255 {
        out[to + n] = bytes[from + 2 * n + 1];
        n += 1;
        // Behind the store, so that the compiler writes the eight turns out.
        if n == 8 {
            return n;
        }
    }
    n
}

// A string that was judged and has len bytes: its end and its pairs need no test.
fn store_escaped(bytes: &[u8], at: usize, out: &mut [u8], to: usize, len: usize)
    requires { Remains bytes.now at out.old to len }
    ensures { out.new ≡ splice out.old to (text_read (reading (drop at bytes.now))) }
{
    let mut i = at;
    let mut n: usize = 0;
    // No iterator: the bytes say how far a step goes.
    while n < len {
        if bytes[i] == 255 {
            let pairs = put_pairs(bytes, i, out, to + n, len - n);
            n += pairs;
            i += 2 * pairs;
        } else {
            let end = skip_blocks(bytes, i);
            if i < end {
                wire::put_bytes(out, to + n, &bytes[i..end]);
                n += end - i;
                i = end;
            } else {
                let few = put_few(bytes, i, out, to + n, len - n);
                n += few.count;
                i = few.next;
            }
        }
    }
}

// A string that was judged. One with no escape is its text and the 00.
fn store_text(bytes: &[u8], at: usize, out: &mut [u8], to: usize, found: StringAt)
    requires { (located (length bytes.now) (reading (drop at bytes.now)) ≡ Ok found) × (to + found.len ≤ length out.old) }
    ensures { out.new ≡ splice out.old to (text_read (reading (drop at bytes.now))) }
{
    let end = found.next - 1;
    if end - at == found.len {
        wire::put_bytes(out, to, &bytes[at..end]);
    } else {
        store_escaped(bytes, at, out, to, found.len);
    }
}

// The string that starts at `at`, put into the output from `to` on.
pub fn decode(bytes: &[u8], at: usize, out: &mut [u8], to: usize) -> Result<StringAt, Refusal>
    ensures { Gives (decoded (length bytes.now) (length out.old) to (reading (drop at bytes.now)))
        (output_read (λ s. s) out.old to (reading (drop at bytes.now))) result out.new }
{
    let found = string_at(bytes, at)?;
    wire::in_room(out.len(), to, found.len)?;
    store_text(bytes, at, out, to, found);
    Ok(found)
}
