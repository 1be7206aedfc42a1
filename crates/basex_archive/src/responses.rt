// Responses.
ghost use Rattle.std.specs.Prelude.{length};
ghost use Rattle.basex.specs.Kinds.{find_of};
ghost use Rattle.basex.specs.Response.{item_bytes};
ghost use Rattle.basex_response.specs.Reading.{reading, text_bytes};
ghost use Rattle.basex_response.specs.Writing.{item_written, item_of, full_of, end_written, end_bytes};
ghost use Rattle.basex_c.specs.Codes.{Tells, Reads};
ghost use Rattle.answer_c.specs.Codes.{WritesByCode};
ghost use Rattle.basex_c.specs.Told.{bytes_read, response_read, item_read};

#[unsafe(no_mangle)]
pub extern "C" fn kdr_basex_read_response(
    kind: u8,
    bytes: &[u8],
    out: &mut [u8],
    told: &mut [u64],
) -> u64
    ensures { Reads (response_read kind bytes.now (length out.old) (length told.old))
        out.old 0 (bytes_read text_bytes (reading kind bytes.now)) told.old
        result out.new told.new }
{
    basex_c::kdr_basex_read_response(kind, bytes, out, told)
}

#[unsafe(no_mangle)]
pub extern "C" fn kdr_basex_item(kind: u8, bytes: &[u8], at: usize, told: &mut [u64]) -> u64
    ensures { Tells (item_read kind bytes.now at (length told.old)) told.old result told.new }
{
    basex_c::kdr_basex_item(kind, bytes, at, told)
}

#[unsafe(no_mangle)]
pub extern "C" fn kdr_basex_write_item(
    out: &mut [u8],
    at: usize,
    kind: u8,
    id: u8,
    uri: &[u8],
    text: &[u8],
) -> u64
    ensures { WritesByCode (item_written (length out.old) at kind id uri.now text.now)
        out.old at (item_bytes (item_of (full_of (find_of kind)) id uri.now text.now)) result out.new }
{
    basex_c::kdr_basex_write_item(out, at, kind, id, uri, text)
}

#[unsafe(no_mangle)]
pub extern "C" fn kdr_basex_write_end(
    out: &mut [u8],
    at: usize,
    kind: u8,
    first: &[u8],
    second: &[u8],
    status: u8,
    error: &[u8],
) -> u64
    ensures { WritesByCode
        (end_written (length out.old) at kind first.now second.now status error.now)
        out.old at (end_bytes (find_of kind) first.now second.now status error.now) result out.new }
{
    basex_c::kdr_basex_write_end(out, at, kind, first, second, status, error)
}
