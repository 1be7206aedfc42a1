// An inner tool of the readers: the text of a string that was judged, stored as it is met, in one pass.
// Nothing is judged or refused here. Whoever wants all or nothing judges the string and the room first
// (`string_at`), or calls `decode`; what was judged is not judged again.
ghost use Rattle.std.specs.Prelude.{◌≡◌, ◌+◌, ◌-◌, ◌≤◌, min, length, take, drop};
ghost use Rattle.wire.specs.Bytes.{splice};
ghost use Rattle.wire.specs.Call.{Gives};
ghost use Rattle.basex_string.specs.inner.Runs.{run};
ghost use Rattle.basex_string.specs.Unescaping.{unescaped, ended};

// `bytes`, `from`, `out` and `to` apart, here and in lib.rt: both places move on by themselves, and a
// struct of the four would be taken apart at each call.
use crate::{Ends, is_special, plain_block, put_block, skip_blocks};

// Blocks of plain bytes, moved as they are met, `most` bytes at most; the answer is how many bytes.
fn put_blocks(bytes: &[u8], from: usize, out: &mut [u8], to: usize, most: usize) -> usize
    requires { (from + most ≤ length bytes.now) × (to + most ≤ length out.old) }
    ensures { (result ≤ most) × (result ≤ run (drop from bytes.now))
        × (out.new ≡ splice out.old to (take result (drop from bytes.now))) }
{
    let mut k: usize = 0;
    // No iterator over blocks: where they end is the answer.
    while 16 <= most - k && plain_block(bytes, from + k) {
        put_block(out, to + k, &bytes[from + k..from + k + 16]);
        k += 16;
    }
    k
}

// The same, found first and moved in one go, which costs a call.
fn put_far(bytes: &[u8], from: usize, out: &mut [u8], to: usize, most: usize) -> usize
    requires { (from + most ≤ length bytes.now) × (to + most ≤ length out.old) }
    ensures { (result ≤ most) × (result ≤ run (drop from bytes.now))
        × (out.new ≡ splice out.old to (take result (drop from bytes.now))) }
{
    let part = &bytes[from..from + most];
    let k = skip_blocks(part, 0);
    wire::put_bytes(out, to, &part[..k]);
    k
}

// The same: four blocks as they are met, and in one go what a long run has behind them.
fn put_plain(bytes: &[u8], from: usize, out: &mut [u8], to: usize, most: usize) -> usize
    requires { (from + most ≤ length bytes.now) × (to + most ≤ length out.old) }
    ensures { (result ≤ most) × (result ≤ run (drop from bytes.now))
        × (out.new ≡ splice out.old to (take result (drop from bytes.now))) }
{
    let few = put_blocks(bytes, from, out, to, most.min(64));
    if few < 64 {
        return few;
    }
    few + put_far(bytes, from + few, out, to + few, most - few)
}

// Plain bytes one by one, `most` at most; the answer is how many.
fn put_singles(bytes: &[u8], from: usize, out: &mut [u8], to: usize, most: usize) -> usize
    requires { (from + most ≤ length bytes.now) × (to + most ≤ length out.old) }
    ensures { Gives (min most (run (drop from bytes.now)))
        (splice out.old to (take result (drop from bytes.now))) result out.new }
{
    let mut k: usize = 0;
    // No iterator over two slices: how many bytes were stored is the answer.
    while k < most && !is_special(bytes[from + k]) {
        out[to + k] = bytes[from + k];
        k += 1;
    }
    k
}

// All plain bytes from `from` on that there is room for; the answer is how many.
fn put_run(bytes: &[u8], from: usize, out: &mut [u8], to: usize) -> usize
    requires { (from ≤ length bytes.now) × (to ≤ length out.old) }
    ensures { Gives (min (length out.old - to) (run (drop from bytes.now)))
        (splice out.old to (take result (drop from bytes.now))) result out.new }
{
    let most = (bytes.len() - from).min(out.len() - to);
    let blocks = put_plain(bytes, from, out, to, most);
    blocks + put_singles(bytes, from + blocks, out, to + blocks, most - blocks)
}

// The text of the judged string at `at`, decoded into the output from `to` on. The caller has seen that
// it fits; of bytes that no one judged, what stands there up to a 00 is stored as far as there is room.
pub fn store_judged_text(bytes: &[u8], at: usize, out: &mut [u8], to: usize) -> Ends
    ensures { Gives (ended at (length bytes.now - at) to (unescaped (length out.old - to) (drop at bytes.now)))
        (splice out.old to (unescaped (length out.old - to) (drop at bytes.now)).text) result out.new }
{
    let mut i = at;
    let mut n = to;
    // No iterator: the bytes say how far a step goes.
    while i < bytes.len() {
        let b = bytes[i];
        if b == 0 {
            return Ends { next: i + 1, to: n };
        }
        if out.len() <= n {
            return Ends { next: i, to: n };
        }
        if b == 255 {
            if bytes.len() - i < 2 {
                return Ends { next: i + 1, to: n };
            }
            out[n] = bytes[i + 1];
            n += 1;
            i += 2;
        } else {
            let count = put_run(bytes, i, out, n);
            n += count;
            i += count;
        }
    }
    Ends { next: i, to: n }
}
