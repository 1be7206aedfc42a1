// Numbers and bytes from text.
ghost use Rattle.std.specs.Prelude.{◌≡◌, ◌≤◌};
ghost use Rattle.text_lines.specs.Numbers.{digit_of, decimal_of, decimal_byte_of};
ghost use Rattle.text_lines.specs.Spelling.{pairs_at, last_at, word_at, text_at, Spells};

use crate::cut::{Parts, behind, front};

// What a field or a message takes at most: a body of 10,240 bytes, its head and something to spare.
pub const SPACE: usize = 12000;

// A digit's value; 16, not None, for any other byte: `digit_of` says so, and each test is one `<`.
#[tactic(auto, unfolding(crate::specs::Numbers::digit_of))]
fn digit(b: u8) -> u8
    ensures { (result ≡ digit_of b) × (result ≤ 16) }
{
    match b {
        b'0'..=b'9' => b - b'0',
        b'A'..=b'F' => b - b'A' + 10,
        b'a'..=b'f' => b - b'a' + 10,
        _ => 16,
    }
}

// A decimal number that an int can hold. Not `str::parse`, which takes a sign too, and only what is UTF-8.
pub fn decimal(text: &[u8]) -> Option<u32>
    ensures { result ≡ decimal_of text.now }
{
    if text.is_empty() {
        return None;
    }
    let mut n: u32 = 0;
    for b in text {
        let d = digit(*b);
        if 9 < d {
            return None;
        }
        n = n.checked_mul(10)?.checked_add(u32::from(d))?;
    }
    Some(n)
}

// A decimal number that a byte can hold.
#[tactic(auto, unfolding(crate::specs::Numbers::decimal_byte_of, crate::specs::Numbers::in_byte))]
pub fn decimal_byte(text: &[u8]) -> Option<u8>
    ensures { result ≡ decimal_byte_of text.now }
{
    u8::try_from(decimal(text)?).ok()
}

// Puts the bytes that pairs of digits spell into out, from n on.
fn pairs(digits: &[u8], out: &mut [u8], n: usize) -> Option<usize>
    ensures { Spells out.old n (pairs_at out.old n digits.now) result out.new }
{
    let count = digits.len() / 2;
    if digits.len() % 2 != 0 || !wire::has_room(out.len(), n, count) {
        return None;
    }
    for i in 0..count {
        let high = digit(digits[2 * i]);
        let low = digit(digits[2 * i + 1]);
        if 15 < high || 15 < low {
            return None;
        }
        wire::put_byte(out, n + i, high * 16 + low);
    }
    Some(n + count)
}

// Repeats the byte before n, so that it stands there so many times in all.
fn repeat(out: &mut [u8], n: usize, times: usize) -> Option<usize>
    ensures { Spells out.old n (last_at out.old n times) result out.new }
{
    if n == 0 || times == 0 || !wire::has_room(out.len(), n, times - 1) {
        return None;
    }
    let b = out[n - 1];
    out[n..n + (times - 1)].fill(b);
    Some(n + (times - 1))
}

// Pairs of digits, and perhaps `*` with how many times the last byte stands in all.
fn word(text: &[u8], out: &mut [u8], n: usize) -> Option<usize>
    ensures { Spells out.old n (word_at out.old n text.now) result out.new }
{
    let digits = front(text, b'*');
    let m = pairs(digits, out, n)?;
    if digits.len() == text.len() {
        return Some(m);
    }
    let times = decimal(behind(text, b'*'))?;
    repeat(out, m, times as usize)
}

// Puts the bytes that words of digits spell into out, from `from` on, where out has such a place.
pub fn bytes(text: &[u8], out: &mut [u8], from: usize) -> Option<usize>
    ensures { Spells out.old from (text_at out.old from text.now) result out.new }
{
    if out.len() < from {
        return None;
    }
    let mut n = from;
    for w in Parts::of(text, b' ') {
        n = word(w, out, n)?;
    }
    Some(n)
}
