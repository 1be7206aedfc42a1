// Strings.
ghost use Rattle.std.specs.Prelude.{◌≡◌, length, drop};
ghost use Rattle.wire.specs.Call.{in_room};
ghost use Rattle.basex_string.specs.Scan.{reading};
ghost use Rattle.basex_string.specs.Strings.{string};
ghost use Rattle.basex_c.specs.Codes.{Tells, Reads};
ghost use Rattle.answer_c.specs.Codes.{WritesByCode};
ghost use Rattle.basex_c.specs.Told.{bytes_read, judging, decoding};

#[unsafe(no_mangle)]
pub extern "C" fn kdr_basex_string_len(text: &[u8]) -> u64
    ensures { result ≡ length (string text.now) }
{
    basex_c::kdr_basex_string_len(text)
}

#[unsafe(no_mangle)]
pub extern "C" fn kdr_basex_write_string(out: &mut [u8], at: usize, text: &[u8]) -> u64
    ensures { WritesByCode (in_room (length out.old) at (length (string text.now)))
        out.old at (string text.now) result out.new }
{
    basex_c::kdr_basex_write_string(out, at, text)
}

#[unsafe(no_mangle)]
pub extern "C" fn kdr_basex_string_at(bytes: &[u8], at: usize, told: &mut [u64]) -> u64
    ensures { Tells (judging bytes.now at (length told.old)) told.old result told.new }
{
    basex_c::kdr_basex_string_at(bytes, at, told)
}

#[unsafe(no_mangle)]
pub extern "C" fn kdr_basex_decode(
    bytes: &[u8],
    at: usize,
    out: &mut [u8],
    to: usize,
    told: &mut [u64],
) -> u64
    ensures { Reads (decoding bytes.now at (length out.old) to (length told.old))
        out.old to (bytes_read (λ s. s) (reading (drop at bytes.now))) told.old
        result out.new told.new }
{
    basex_c::kdr_basex_decode(bytes, at, out, to, told)
}
