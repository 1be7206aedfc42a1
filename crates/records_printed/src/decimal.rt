// Numbers in decimal: how many digits, and the digits put into lent output. By hand: Display promises
// nothing of the digits that it writes.
ghost use Rattle.std.specs.Prelude.{◌≡◌};
ghost use Rattle.wire.specs.Call.{put_at};
ghost use Rattle.records_printed.specs.Line.{decimal};
ghost use Rattle.records_printed.specs.inner.Line.{Counts, Fits};

pub(crate) fn count_digits(n: u64) -> usize
    ensures { Counts (decimal n) 20 result }
{
    if n == 0 { 1 } else { n.ilog10() as usize + 1 }
}

// The last digit first, from the place where it stands to the front.
pub(crate) fn put_digits(out: &mut [u8], at: usize, n: u64, count: usize)
    requires { Fits out.old at count (decimal n) }
    ensures { out.new ≡ put_at out.old at (decimal n) }
{
    let mut rest = n;
    for i in (0..count).rev() {
        out[at + i] = b'0' + (rest % 10) as u8;
        rest /= 10;
    }
}
