// How many special bytes a text has.
ghost use Rattle.std.specs.Prelude.{◌≡◌, ◌≤◌, length};
ghost use Rattle.basex_string.specs.inner.Runs.{specials};

use crate::is_special;

// A count that fits a byte: the compiler then counts sixteen bytes at once.
fn count_few(part: &[u8]) -> usize
    requires { length part.now ≤ 255 }
    ensures { result ≡ specials part.now }
{
    let mut n: u8 = 0;
    for b in part {
        if is_special(*b) {
            n += 1;
        }
    }
    n as usize
}

pub fn count_specials(text: &[u8]) -> usize
    ensures { (result ≡ specials text.now) × (result ≤ length text.now) }
{
    let mut n: usize = 0;
    let mut i: usize = 0;
    // No `chunks`: with it the proof did not close.
    while i < text.len() {
        let end = i + (text.len() - i).min(128);
        n += count_few(&text[i..end]);
        i = end;
    }
    n
}
